// Whether an area is a sound pin table.
ghost use Rattle.std.specs.Prelude.{◌≡◌, true, ◌&&◌, ◌≤◌};
ghost use Rattle.octets.specs.Octets.{all_zero};
ghost use Rattle.pin_model.specs.Table.{clock_limit};
ghost use Rattle.pin_model.specs.Layout.{latest_in};
ghost use Rattle.pin_model.specs.Sound.{head_sound, names_shaped, names_distinct, names_keyed, keys_named, sound};

use crate::{key_rules, links, name_rules};
use pin_distinct::distinct;
use pin_table::minutes::Minutes;
use pin_table::slots;
use pin_table::slots::{AREA_LENGTH, Area, EDITION_AT};

// The eight bytes before the slots.
#[tactic(auto, unfolding(pin_model::specs::Sound::head_sound))]
fn head_sound(area: &Area) -> bool
    ensures { result ≡ head_sound area.now }
{
    slots::latest(area) <= Minutes::CLOCK_LIMIT
        && area[EDITION_AT] <= 1
        && octets::zeros_at(area, 5, 3)
}

// All that is asked of the names, and the keys' names.
fn names_sound(area: &Area) -> bool
    requires { latest_in area.now ≤ clock_limit }
    ensures { result ≡ (names_shaped area.now && (names_distinct area.now && (names_keyed area.now && keys_named area.now))) }
{
    name_rules::names_shaped(area)
        && distinct::names_distinct(area)
        && links::names_keyed(area)
        && links::keys_named(area)
}

// Rule by rule.
#[tactic(auto, using(crate::proofs::Rules::latest_within), unfolding(pin_model::specs::Sound::sound))]
fn rules_hold(area: &Area) -> bool
    ensures { result ≡ sound area.now }
{
    head_sound(area)
        && key_rules::keys_shaped(area)
        && distinct::keys_distinct(area)
        && names_sound(area)
}

// Whether the area is all zero, as starting edition one leaves it. A table that has judged has a latest clock, and one of edition
// two its byte, so that either takes one look.
#[tactic(auto, using(crate::proofs::Rules::zeros_whole))]
fn is_empty(area: &Area) -> bool
    ensures { result ≡ true → all_zero area.now ≡ true }
{
    octets::zeros_at(area, 0, 8) && octets::zeros_at(area, 0, AREA_LENGTH)
}

#[tactic(auto, unfolding(pin_model::specs::Sound::sound))]
pub fn is_sound(area: &[u8]) -> bool
    ensures { result ≡ sound area.now }
{
    let Ok(area) = <&Area>::try_from(area) else {
        return false;
    };
    is_empty(area) || rules_hold(area)
}
