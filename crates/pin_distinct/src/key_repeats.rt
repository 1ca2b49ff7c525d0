// Whether a key stands before in the table.
ghost use Rattle.std.specs.Prelude.{◌≡◌};
ghost use Rattle.pin_model.specs.Sound.{same_key, key_twice};

use pin_table::slots;
use pin_table::slots::{Area, KEY_AT, KEY_SLOT_LENGTH, KeySlot};

// Whether two slots are used and have one key.
#[tactic(auto, unfolding(pin_model::specs::Sound::same_key))]
pub fn same_key(s: &[u8; KEY_SLOT_LENGTH], r: &[u8; KEY_SLOT_LENGTH]) -> bool
    ensures { result ≡ same_key s.now r.now }
{
    slots::is_used(s) && slots::is_used(r) && octets::same_64_at(s, KEY_AT, slots::key(r))
}

// Whether a slot before this one has its key.
pub fn key_twice(area: &Area, k: KeySlot) -> bool
    ensures { result ≡ key_twice area.now k }
{
    let s = slots::key_slot(area, k);
    (0..k.number()).any(|j| same_key(s, slots::key_slot(area, KeySlot::at(j))))
}
