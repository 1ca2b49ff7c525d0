// What a record says.
ghost use Rattle.std.specs.Prelude.{◌≡◌, false, ◌<◌, get_or};
ghost use Rattle.std.proofs.Math.Option.{none};
ghost use Rattle.pin_model.specs.Table.{pinned_to};
ghost use Rattle.pin_model.specs.Layout.{decode, key_at};
ghost use Rattle.pin_model.specs.Fits.{floor_at, holds};
ghost use Rattle.pin_records.specs.Holds.{Stored};
ghost use Rattle.pin_records.specs.Find.{is_free, initial_at, end_at};
ghost use Rattle.pin_records.specs.Read.{end_found, pinned_key};

use crate::find;
use pin_table::minutes::Minutes;
use pin_table::slots;
use pin_table::slots::{END_PRESENT_AT, FLOOR_AT, KeySlot, NameSlot};

pub fn latest(area: &[u8]) -> Minutes
    requires { Stored area.now }
    ensures { result.0 ≡ (decode area.now).latest }
{
    slots::latest(area)
}

pub fn floor(area: &[u8], k: KeySlot) -> u8
    requires { Stored area.now }
    ensures { result ≡ floor_at (get_or (decode area.now).keys k none) }
{
    slots::key_slot(area, k)[FLOOR_AT]
}

pub fn initial(area: &[u8], n: NameSlot) -> Minutes
    requires { Stored area.now }
    ensures { result.0 ≡ initial_at (get_or (decode area.now).names n none) }
{
    slots::initial(slots::name_slot(area, n))
}

pub fn end(area: &[u8], n: NameSlot) -> Option<Minutes>
    requires { Stored area.now }
    ensures { result ≡ end_found (end_at (get_or (decode area.now).names n none)) }
{
    let s = slots::name_slot(area, n);
    if s[END_PRESENT_AT] != 1 {
        return None;
    }
    Some(slots::end(s))
}

// The slot of the key that a used name slot is pinned to.
pub fn key_of(area: &[u8], n: NameSlot) -> KeySlot
    requires { Stored area.now × (is_free (get_or (decode area.now).names n none) ≡ false) }
    ensures { (result < 64) × (result ≡ pinned_key (decode area.now).keys (get_or (decode area.now).names n none)) }
{
    KeySlot::at(usize::from(slots::key_number(slots::name_slot(area, n))))
}

// Whether a used name slot's record is pinned to this key.
pub fn pinned_to(area: &[u8], n: NameSlot, key: &[u8; 64]) -> bool
    requires { Stored area.now × (is_free (get_or (decode area.now).names n none) ≡ false) }
    ensures { result ≡ holds (pinned_to key.now) (get_or (decode area.now).names n none) }
{
    find::holds_key(area, key_of(area, n), key)
}

// Whether a name slot's record is pinned to the key of a used key slot.
pub fn refers_to(area: &[u8], n: NameSlot, k: KeySlot) -> bool
    requires { Stored area.now × (is_free (get_or (decode area.now).keys k none) ≡ false) }
    ensures { result ≡ holds (pinned_to (key_at (get_or (decode area.now).keys k none))) (get_or (decode area.now).names n none) }
{
    slots::refers_to(slots::name_slot(area, n), k)
}
