// The running tally of a night: how often each number was answered.
#![tactic(auto)]

ghost use Rattle.std.specs.Prelude.{◌≡◌, [], get_or};
ghost use Rattle.tally.specs.Tally.{counted, tallied};

#[derive(Clone, Copy)]
pub struct Tally {
    pub counts: [u32; 32],
}

impl Tally {
    // The tally from which a night begins.
    pub fn new() -> Tally
        ensures { result.counts ≡ tallied [] }
    {
        Tally { counts: [0; 32] }
    }

    // The tally after one more answer of this number, its count staying at the top. A number of 32 or more changes nothing.
    pub fn counted(self, number: u8) -> Tally
        ensures { result.counts ≡ counted number self.counts }
    {
        let mut counts = self.counts;
        let at = usize::from(number);
        if at < counts.len() {
            counts[at] = counts[at].saturating_add(1);
        }
        Tally { counts }
    }

    // Counts it in place.
    pub fn count(&mut self, number: u8)
        ensures { self.new.counts ≡ counted number self.old.counts }
    {
        *self = self.counted(number);
    }

    // How often a number was answered.
    pub fn times(&self, number: u8) -> u32
        ensures { result ≡ get_or self.now.counts number 0 }
    {
        self.counts.get(usize::from(number)).copied().unwrap_or(0)
    }
}
