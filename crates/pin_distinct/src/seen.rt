// The marks that were seen, a bit for each of 8,192: so few bytes are soon cleared.
ghost use Rattle.std.specs.Prelude.{◌≡◌, replicate};
ghost use Rattle.pin_distinct.specs.SeenMarks.{bit_of, is_seen, with_seen};

use crate::mark::{MARKS, Mark};

#[derive(Drop)]
pub struct Seen {
    words: [u64; MARKS / 64],
}

// The mark's bit in its word.
#[tactic(auto, unfolding(crate::specs::SeenMarks::bit_of))]
fn bit_of(m: usize) -> u64
    ensures { result ≡ bit_of m }
{
    1 << (m % 64)
}

impl Seen {
    pub fn new() -> Seen
        ensures { result.words ≡ replicate 128 0 }
    {
        Seen {
            words: [0; MARKS / 64],
        }
    }

    // Adds a mark to those seen, and says whether it was among them.
    #[tactic(auto, unfolding(crate::specs::SeenMarks::is_seen, crate::specs::SeenMarks::with_seen))]
    pub fn add(&mut self, mark: Mark) -> bool
        ensures { (result ≡ is_seen self.old.words mark) × (self.new.words ≡ with_seen self.old.words mark) }
    {
        let m = mark.number();
        let bit = bit_of(m);
        let word = self.words[m / 64];
        self.words[m / 64] = word | bit;
        word & bit != 0
    }
}
