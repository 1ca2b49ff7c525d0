// What must hold of name slots by themselves, and of their minutes against the latest clock.
ghost use Rattle.std.specs.Prelude.{◌≡◌, ◌≤◌};
ghost use Rattle.pin_model.specs.Table.{clock_limit};
ghost use Rattle.pin_model.specs.Layout.{latest_in};
ghost use Rattle.pin_model.specs.Sound.{end_sound, name_formed, name_right, name_shaped, names_shaped};

use pin_table::minutes::Minutes;
use pin_table::slots;
use pin_table::slots::{
    Area, END_AT, END_PRESENT_AT, NAME_SLOT_LENGTH, NAME_SLOTS, NameSlot, UNUSED_AT,
};

// The end: 0 where not present, otherwise from initial to thirty days after latest.
#[tactic(auto, unfolding(pin_model::specs::Sound::end_sound))]
pub fn end_sound(s: &[u8; NAME_SLOT_LENGTH], latest: Minutes) -> bool
    requires { latest.0 ≤ clock_limit }
    ensures { result ≡ end_sound latest.0 s.now }
{
    match s[END_PRESENT_AT] {
        0 => octets::zeros_at(s, END_AT, 4),
        1 => {
            let end = slots::end(s);
            slots::initial(s) <= end && end <= latest.later()
        }
        _ => false,
    }
}

// The name is well-formed, and zeros stand behind it.
#[tactic(auto, using(crate::proofs::Rules::padded_formed))]
pub fn name_formed(s: &[u8; NAME_SLOT_LENGTH]) -> bool
    ensures { result ≡ name_formed s.now }
{
    padded_name::well_formed(slots::padded_name(s), usize::from(slots::name_length(s)))
}

// All rules of a used slot by itself.
#[tactic(auto, unfolding(pin_model::specs::Sound::name_right))]
pub fn name_right(s: &[u8; NAME_SLOT_LENGTH], latest: Minutes) -> bool
    requires { latest.0 ≤ clock_limit }
    ensures { result ≡ name_right latest.0 s.now }
{
    octets::zeros_at(s, UNUSED_AT, 4)
        && name_formed(s)
        && slots::initial(s) <= latest
        && end_sound(s, latest)
}

#[tactic(auto, using(crate::proofs::Rules::zeros_whole), unfolding(pin_model::specs::Sound::name_shaped))]
pub fn name_shaped(s: &[u8; NAME_SLOT_LENGTH], latest: Minutes) -> bool
    requires { latest.0 ≤ clock_limit }
    ensures { result ≡ name_shaped latest.0 s.now }
{
    if slots::is_used(s) {
        return name_right(s, latest);
    }
    octets::zeros_at(s, 0, NAME_SLOT_LENGTH)
}

pub fn names_shaped(area: &Area) -> bool
    requires { latest_in area.now ≤ clock_limit }
    ensures { result ≡ names_shaped area.now }
{
    let latest = slots::latest(area);
    (0..NAME_SLOTS).all(|n| name_shaped(slots::name_slot(area, NameSlot::at(n)), latest))
}
