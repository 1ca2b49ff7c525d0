// What must hold of key slots by themselves.
ghost use Rattle.std.specs.Prelude.{◌≡◌};
ghost use Rattle.pin_model.specs.Sound.{key_shaped, keys_shaped};

use pin_table::slots;
use pin_table::slots::{Area, KEY_SLOT_LENGTH, KEY_SLOTS, KeySlot};

// A used slot has six zeros behind its floor, a free one is all zero.
#[tactic(auto, using(crate::proofs::Rules::zeros_whole), unfolding(pin_model::specs::Sound::key_shaped))]
pub fn key_shaped(s: &[u8; KEY_SLOT_LENGTH]) -> bool
    ensures { result ≡ key_shaped s.now }
{
    if slots::is_used(s) {
        return octets::zeros_at(s, 2, 6);
    }
    octets::zeros_at(s, 0, KEY_SLOT_LENGTH)
}

pub fn keys_shaped(area: &Area) -> bool
    ensures { result ≡ keys_shaped area.now }
{
    (0..KEY_SLOTS).all(|k| key_shaped(slots::key_slot(area, KeySlot::at(k))))
}
