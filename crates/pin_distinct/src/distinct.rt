// No key twice, and no name more often than its edition allows. Only where the mark of a slot was seen before is it compared with all
// before it: so the answer is the same whatever the marks are, and a table whose marks differ takes one pass.
ghost use Rattle.std.specs.Prelude.{◌≡◌, true};
ghost use Rattle.pin_model.specs.Sound.{keys_distinct, names_shaped, names_distinct};
ghost use Rattle.pin_distinct.specs.Pins.{pins_distinct, no_name_thrice};

use crate::seen::Seen;
use crate::{key_repeats, marks, repeats};
use pin_table::slots;
use pin_table::slots::{Area, KEY_SLOTS, KeySlot, NAME_SLOTS, NameSlot};

pub fn keys_distinct(area: &Area) -> bool
    ensures { result ≡ keys_distinct area.now }
{
    let mut seen = Seen::new();
    for n in 0..KEY_SLOTS {
        let k = KeySlot::at(n);
        let s = slots::key_slot(area, k);
        if slots::is_used(s) && seen.add(marks::key_mark(s)) && key_repeats::key_twice(area, k) {
            return false;
        }
    }
    true
}

// No name twice in edition one, no name with its key twice in edition two.
fn pins_distinct(area: &Area) -> bool
    requires { names_shaped area.now ≡ true }
    ensures { result ≡ pins_distinct area.now }
{
    let two = slots::is_two(area);
    let mut seen = Seen::new();
    for i in 0..NAME_SLOTS {
        let n = NameSlot::at(i);
        let s = slots::name_slot(area, n);
        if slots::is_used(s) && seen.add(marks::pin_mark(s, two)) && repeats::pin_again(area, n) {
            return false;
        }
    }
    true
}

// No name three times: only a mark that was seen twice before can be a third record's.
fn no_name_thrice(area: &Area) -> bool
    requires { names_shaped area.now ≡ true }
    ensures { result ≡ no_name_thrice area.now }
{
    let mut seen = Seen::new();
    let mut again = Seen::new();
    for i in 0..NAME_SLOTS {
        let n = NameSlot::at(i);
        let s = slots::name_slot(area, n);
        if !slots::is_used(s) {
            continue;
        }
        let mark = marks::name_mark(s);
        if seen.add(mark) && again.add(mark) && repeats::name_thrice(area, n) {
            return false;
        }
    }
    true
}

#[tactic(auto, using(crate::proofs::Doubles::distinct_parts))]
pub fn names_distinct(area: &Area) -> bool
    requires { names_shaped area.now ≡ true }
    ensures { result ≡ names_distinct area.now }
{
    pins_distinct(area) && (!slots::is_two(area) || no_name_thrice(area))
}
