// Whether a name stands before in the table: once in edition one; with its key, or twice, in edition two.
ghost use Rattle.std.specs.Prelude.{◌≡◌};
ghost use Rattle.pin_model.specs.Layout.{of_two};
ghost use Rattle.pin_model.specs.Sound.{same_name, name_twice, same_pin, name_thrice};
ghost use Rattle.pin_distinct.specs.Pins.{pin_again};

use pin_table::slots;
use pin_table::slots::{Area, NAME_AT, NAME_SLOT_LENGTH, NameSlot};

// Whether two slots are used and have one name. A part of each search that asks it, as `same_at` is.
#[inline(always)]
#[tactic(auto, unfolding(pin_model::specs::Sound::same_name))]
fn same_name(s: &[u8; NAME_SLOT_LENGTH], r: &[u8; NAME_SLOT_LENGTH]) -> bool
    ensures { result ≡ same_name s.now r.now }
{
    slots::is_used(s)
        && slots::name_length(s) == slots::name_length(r)
        && slots::is_used(r)
        && octets::same_at(s, NAME_AT, slots::name(r))
}

// Whether a slot before this one has its name.
fn name_twice(area: &Area, n: NameSlot) -> bool
    ensures { result ≡ name_twice area.now n }
{
    let s = slots::name_slot(area, n);
    (0..n.number()).any(|m| same_name(s, slots::name_slot(area, NameSlot::at(m))))
}

// Whether two slots are used and have one name and one key. The keys are compared first, since they are one byte each.
#[tactic(auto, unfolding(pin_model::specs::Sound::same_pin))]
fn same_pin(s: &[u8; NAME_SLOT_LENGTH], r: &[u8; NAME_SLOT_LENGTH]) -> bool
    ensures { result ≡ same_pin s.now r.now }
{
    slots::key_number(s) == slots::key_number(r) && same_name(s, r)
}

// Whether two slots before this one have its name: one that has it, and one before that.
pub fn name_thrice(area: &Area, n: NameSlot) -> bool
    ensures { result ≡ name_thrice area.now n }
{
    let s = slots::name_slot(area, n);
    (0..n.number()).any(|m| {
        let k = NameSlot::at(m);
        same_name(s, slots::name_slot(area, k)) && name_twice(area, k)
    })
}

// Whether a slot before this one says what it says: its name, and in edition two its key. Apart, since few slots come to it.
#[inline(never)]
pub fn pin_again(area: &Area, n: NameSlot) -> bool
    ensures { result ≡ pin_again (of_two area.now) area.now n }
{
    if slots::is_two(area) {
        let s = slots::name_slot(area, n);
        return (0..n.number()).any(|m| same_pin(s, slots::name_slot(area, NameSlot::at(m))));
    }
    name_twice(area, n)
}
