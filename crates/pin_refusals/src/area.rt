// 10 to 13: the tests that a call on any bytes makes before it looks at the table.
ghost use Rattle.std.specs.Prelude.{◌≡◌, ◌++◌, IfOk};
ghost use Rattle.pin_model.specs.Refusals.{first, area_tests, name_test, limit_test};
ghost use Rattle.pin_answers.specs.Numbers.{checked_number};

use pin_answers::Refusal;
use pin_soundness::sound;
use pin_table::minutes::Minutes;
use pin_table::slots::AREA_LENGTH;

// 10 and 11.
pub fn check_area(area: &[u8]) -> Result<(), Refusal>
    ensures { checked_number result ≡ first (area_tests area.now) }
{
    if area.len() != AREA_LENGTH {
        return Err(Refusal::AreaLength);
    }
    if !sound::is_sound(area) {
        return Err(Refusal::Damaged);
    }
    Ok(())
}

// 10, 11 and 12.
pub fn check_name(area: &[u8], name: &[u8]) -> Result<(), Refusal>
    ensures { checked_number result ≡ first (area_tests area.now ++ name_test name.now) }
{
    check_area(area)?;
    if !host_name::well_formed(name) {
        return Err(Refusal::NameMalformed);
    }
    Ok(())
}

// 12 and 13, and the clock where neither applies.
#[tactic(auto, using(std::proofs::lemmas::Bool::Decides::nat_tests), unfolding(pin_table::specs::Clocks::clock_of))]
pub fn check_call(name: &[u8], clock: u64) -> Result<Minutes, Refusal>
    ensures answer { checked_number result ≡ first (name_test name.now ++ limit_test clock) }
    ensures clock { IfOk result (λ m. m.0 ≡ clock) }
{
    if !host_name::well_formed(name) {
        return Err(Refusal::NameMalformed);
    }
    Minutes::of_clock(clock).ok_or(Refusal::ClockAboveLimit)
}
