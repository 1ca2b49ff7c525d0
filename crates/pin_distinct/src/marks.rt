// The mark of a slot: a number below 8,192 that equal keys, and equal names, share.
ghost use Rattle.std.specs.Prelude.{◌≡◌, true};
ghost use Rattle.pin_model.specs.Layout.{key_in, name_in};
ghost use Rattle.pin_model.specs.Sound.{name_formed};
ghost use Rattle.pin_distinct.specs.Hashes.{with_word, mark_of, key_mark, name_mark, pin_mark};

use crate::mark::{MARKS, Mark};
use pin_table::slots;
use pin_table::slots::{KEY_SLOT_LENGTH, NAME_SLOT_LENGTH};

// A hash with one word more: it is rotated by 13 places first.
#[tactic(auto, unfolding(crate::specs::Hashes::with_word))]
fn with_word(h: u64, word: u64) -> u64
    ensures { result ≡ with_word h word }
{
    h.rotate_left(13) ^ word
}

// Thirteen bits that all 64 of a hash go into: two products of 32 bits each, folded, and one more. 4294967296 is 2 to the 32nd,
// 4194304 to the 22nd.
#[tactic(auto, unfolding(crate::specs::Hashes::mark_of))]
fn mark_of(h: u64) -> Mark
    ensures { result ≡ mark_of h }
{
    let low = h % 4294967296 * 2654435761;
    let high = h / 4294967296 * 3266489917;
    let both = low ^ high;
    let folded = both ^ (both / 4294967296);
    Mark::new((folded % 4294967296 * 2654435761 / 4194304 % 8192) as usize)
}

// By the key's first word and its last.
#[tactic(auto, unfolding(crate::specs::Hashes::key_mark))]
pub fn key_mark(s: &[u8; KEY_SLOT_LENGTH]) -> Mark
    ensures { result ≡ key_mark (key_in s.now) }
{
    let key = slots::key(s);
    let first = octets::word_at(key, 0);
    let last = octets::word_at(key, 56);
    mark_of(with_word(first, last))
}

// By the words that the name stands in. Zeros fill the last of them, so that equal names have equal words. Apart, since the check that
// asks it is large enough.
#[inline(never)]
pub fn name_mark(s: &[u8; NAME_SLOT_LENGTH]) -> Mark
    requires { name_formed s.now ≡ true }
    ensures { result ≡ name_mark (name_in s.now) }
{
    let n = usize::from(slots::name_length(s));
    let padded = slots::padded_name(s);
    let mut h = 0;
    for i in 0..n / 8 + 1 {
        h = with_word(h, octets::word_at(padded, 8 * i));
    }
    mark_of(h)
}

// In edition two by the number of its key too, so that two records of a name have different marks.
#[tactic(auto, unfolding(crate::specs::Hashes::pin_mark))]
pub fn pin_mark(s: &[u8; NAME_SLOT_LENGTH], two: bool) -> Mark
    requires { name_formed s.now ≡ true }
    ensures { result ≡ pin_mark two s.now }
{
    let mark = name_mark(s);
    if !two {
        return mark;
    }
    let key_number = usize::from(slots::key_number(s));
    Mark::new((mark.number() + 127 * key_number) % MARKS)
}
