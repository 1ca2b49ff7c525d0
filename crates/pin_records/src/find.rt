// Which slot holds a key, a name or a pin, and which is free.
ghost use Rattle.std.specs.Prelude.{◌≡◌, get_or};
ghost use Rattle.std.proofs.Math.Option.{none};
ghost use Rattle.pin_model.specs.Table.{key_is, name_is, pin_is};
ghost use Rattle.pin_model.specs.Layout.{decode};
ghost use Rattle.pin_model.specs.Fits.{holds};
ghost use Rattle.pin_records.specs.Holds.{Stored};
ghost use Rattle.pin_records.specs.Find.{is_free, first_slot, second_slot, slot_found};

use crate::read;
use pin_table::slots;
use pin_table::slots::{KEY_AT, KEY_SLOTS, KeySlot, NAME_AT, NAME_SLOTS, NameSlot};

// Whether the slot holds this key's record.
pub fn holds_key(area: &[u8], k: KeySlot, key: &[u8; 64]) -> bool
    requires { Stored area.now }
    ensures { result ≡ holds (key_is key.now) (get_or (decode area.now).keys k none) }
{
    let s = slots::key_slot(area, k);
    slots::is_used(s) && octets::same_64_at(s, KEY_AT, key)
}

// Whether the slot holds this name's record. A part of each search that asks it, as `same_at` is.
#[inline(always)]
pub fn holds_name(area: &[u8], n: NameSlot, name: &[u8]) -> bool
    requires { Stored area.now }
    ensures { result ≡ holds (name_is name.now) (get_or (decode area.now).names n none) }
{
    let s = slots::name_slot(area, n);
    slots::is_used(s)
        && usize::from(slots::name_length(s)) == name.len()
        && octets::same_at(s, NAME_AT, name)
}

pub fn find_key(area: &[u8], key: &[u8; 64]) -> Option<KeySlot>
    requires { Stored area.now }
    ensures { result ≡ slot_found 64 (first_slot (holds (key_is key.now)) (decode area.now).keys) }
{
    (0..KEY_SLOTS)
        .map(KeySlot::at)
        .find(|k| holds_key(area, *k, key))
}

pub fn find_name(area: &[u8], name: &[u8]) -> Option<NameSlot>
    requires { Stored area.now }
    ensures { result ≡ slot_found 128 (first_slot (holds (name_is name.now)) (decode area.now).names) }
{
    (0..NAME_SLOTS)
        .map(NameSlot::at)
        .find(|n| holds_name(area, *n, name))
}

// The second slot that holds the name.
pub fn second_name(area: &[u8], name: &[u8]) -> Option<NameSlot>
    requires { Stored area.now }
    ensures { result ≡ slot_found 128 (second_slot (holds (name_is name.now)) (decode area.now).names) }
{
    let first = find_name(area, name)?;
    (first.number() + 1..NAME_SLOTS)
        .map(NameSlot::at)
        .find(|n| holds_name(area, *n, name))
}

// Whether the slot holds this name's record with this key.
pub fn holds_pin(area: &[u8], n: NameSlot, name: &[u8], key: &[u8; 64]) -> bool
    requires { Stored area.now }
    ensures { result ≡ holds (pin_is name.now key.now) (get_or (decode area.now).names n none) }
{
    holds_name(area, n, name) && read::pinned_to(area, n, key)
}

pub fn find_pin(area: &[u8], name: &[u8], key: &[u8; 64]) -> Option<NameSlot>
    requires { Stored area.now }
    ensures { result ≡ slot_found 128 (first_slot (holds (pin_is name.now key.now)) (decode area.now).names) }
{
    (0..NAME_SLOTS)
        .map(NameSlot::at)
        .find(|n| holds_pin(area, *n, name, key))
}

pub fn key_is_free(area: &[u8], k: KeySlot) -> bool
    requires { Stored area.now }
    ensures { result ≡ is_free (get_or (decode area.now).keys k none) }
{
    !slots::is_used(slots::key_slot(area, k))
}

pub fn name_is_free(area: &[u8], n: NameSlot) -> bool
    requires { Stored area.now }
    ensures { result ≡ is_free (get_or (decode area.now).names n none) }
{
    !slots::is_used(slots::name_slot(area, n))
}

// The lowest free key slot.
pub fn free_key(area: &[u8]) -> Option<KeySlot>
    requires { Stored area.now }
    ensures { result ≡ slot_found 64 (first_slot is_free (decode area.now).keys) }
{
    (0..KEY_SLOTS)
        .map(KeySlot::at)
        .find(|k| key_is_free(area, *k))
}

// The lowest free name slot.
pub fn free_name(area: &[u8]) -> Option<NameSlot>
    requires { Stored area.now }
    ensures { result ≡ slot_found 128 (first_slot is_free (decode area.now).names) }
{
    (0..NAME_SLOTS)
        .map(NameSlot::at)
        .find(|n| name_is_free(area, *n))
}
