// Minutes since 1970: a kind of number of their own, so that no slot is added to a clock.
ghost use Rattle.std.specs.Prelude.{◌≡◌, ◌+◌, ◌-◌, ◌≤◌, min, length};
ghost use Rattle.octets.specs.Octets.{part, number};
ghost use Rattle.pin_model.specs.Table.{thirty_days, clock_limit};
ghost use Rattle.pin_table.specs.Clocks.{clock_of};

#[derive(Clone, Copy, PartialEq, Eq, PartialOrd, Ord)]
pub struct Minutes(u32);

impl Minutes {
    pub const THIRTY_DAYS: Minutes = Minutes(43200);

    // The last clock that thirty days can be added to.
    pub const CLOCK_LIMIT: Minutes = Minutes(4294924095);

    // A caller's clock, unless it is above the limit.
    #[tactic(auto, unfolding(crate::specs::Clocks::clock_of), using(std::proofs::lemmas::Bool::Decides::nat_tests))]
    pub fn of_clock(clock: u64) -> Option<Minutes>
        ensures { result ≡ clock_of clock }
    {
        let limit = Minutes::CLOCK_LIMIT;
        if clock > u64::from(limit.0) {
            return None;
        }
        Some(Minutes(clock as u32))
    }

    pub fn count(self) -> u32
        ensures { result ≡ self.0 }
    {
        self.0
    }

    pub fn later(self) -> Minutes
        requires { self.0 ≤ clock_limit }
        ensures { result.0 ≡ self.0 + thirty_days }
    {
        let days = Minutes::THIRTY_DAYS;
        Minutes(self.0 + days.0)
    }

    // The end of a pin that is seen at this clock: as long after it as it is since the pin's initial clock, thirty days at most.
    pub fn pin_end(self, initial: Minutes) -> Minutes
        requires { (initial.0 ≤ self.0) × (self.0 ≤ clock_limit) }
        ensures { result.0 ≡ self.0 + min thirty_days (self.0 - initial.0) }
    {
        let days = Minutes::THIRTY_DAYS;
        Minutes(self.0 + days.0.min(self.0 - initial.0))
    }
}

// The minutes in the four bytes from `at`.
pub fn minutes_at(s: &[u8], at: usize) -> Minutes
    requires { at + 4 ≤ length s.now }
    ensures { result.0 ≡ number (part s.now at 4) }
{
    Minutes(octets::number_at::<4>(s, at))
}
