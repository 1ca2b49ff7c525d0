// Names and keys refer to each other: a name's key slot is used, and a used key has a name.
ghost use Rattle.std.specs.Prelude.{◌≡◌};
ghost use Rattle.pin_model.specs.Sound.{name_keyed, names_keyed, keys_named};
ghost use Rattle.pin_soundness.specs.Marked.{KeysMarked};

use pin_table::slots;
use pin_table::slots::{Area, KEY_SLOTS, KeySlot, NAME_SLOT_LENGTH, NAME_SLOTS, NameSlot};

// Whether the name's key slot is used, where the name slot is.
#[tactic(auto, unfolding(pin_model::specs::Sound::name_keyed))]
pub fn name_keyed(area: &Area, s: &[u8; NAME_SLOT_LENGTH]) -> bool
    ensures { result ≡ name_keyed area.now s.now }
{
    if !slots::is_used(s) {
        return true;
    }
    let Some(k) = KeySlot::of(usize::from(slots::key_number(s))) else {
        return false;
    };
    slots::is_used(slots::key_slot(area, k))
}

pub fn names_keyed(area: &Area) -> bool
    ensures { result ≡ names_keyed area.now }
{
    (0..NAME_SLOTS).all(|n| name_keyed(area, slots::name_slot(area, NameSlot::at(n))))
}

// The keys that names refer to. As long as a byte can count, so that any number is an index.
fn marked_keys(area: &Area) -> [bool; 256]
    ensures { KeysMarked area.now result 128 }
{
    let mut marked = [false; 256];
    for n in 0..NAME_SLOTS {
        let s = slots::name_slot(area, NameSlot::at(n));
        if slots::is_used(s) {
            marked[usize::from(slots::key_number(s))] = true;
        }
    }
    marked
}

// One pass over the names, not one for each key.
pub fn keys_named(area: &Area) -> bool
    ensures { result ≡ keys_named area.now }
{
    let marked = marked_keys(area);
    (0..KEY_SLOTS).all(|k| !slots::is_used(slots::key_slot(area, KeySlot::at(k))) || marked[k])
}
