// The verdict: contradicted if an active record of the name has no matching tack, else confirmed if one is active.
ghost use Rattle.std.specs.Prelude.{◌≡◌, not, ◌&&◌, get_or};
ghost use Rattle.std.proofs.Math.Option.{none};
ghost use Rattle.octets.specs.Octets.{any};
ghost use Rattle.pin_model.specs.Slots.{used};
ghost use Rattle.pin_model.specs.Layout.{decode};
ghost use Rattle.pin_model.specs.Fits.{holds};
ghost use Rattle.pin_model.specs.Judge.{active_of};
ghost use Rattle.pin_model.specs.JudgeTwo.{contradicted};
ghost use Rattle.pin_records.specs.Holds.{Stored};
ghost use Rattle.pin_refusals_two.specs.Parts.{both_in};
ghost use Rattle.pin_steps_two.specs.Shown.{shown_for};

use crate::matching;
use pin_records::find;
use pin_steps::verdict;
use pin_table::minutes::Minutes;
use pin_table::slots::{NAME_SLOTS, NameSlot};
use tack_extension_two::reader::Tacks;

// Whether the slot has an active record of the name. A part of each search that asks it, as `holds_name` is.
#[inline(always)]
fn holds_active(area: &[u8], n: NameSlot, name: &[u8], clock: Minutes) -> bool
    requires { Stored area.now }
    ensures { result ≡ holds (active_of name.now clock.0) (get_or (decode area.now).names n none) }
{
    find::holds_name(area, n, name) && verdict::is_active(area, n, clock)
}

// Whether the slot has one that no tack matches, enabled or not.
fn contradicts(area: &[u8], n: NameSlot, name: &[u8], tacks: Tacks<'_>, clock: Minutes) -> bool
    requires { Stored area.now }
    ensures { result ≡ holds (λ x. active_of name.now clock.0 x && not (shown_for (both_in tacks.entry) x)) (get_or (decode area.now).names n none) }
{
    holds_active(area, n, name, clock) && !matching::is_shown(area, n, tacks)
}

pub fn is_contradicted(area: &[u8], name: &[u8], tacks: Tacks<'_>, clock: Minutes) -> bool
    requires { Stored area.now }
    ensures { result ≡ contradicted name.now clock.0 (both_in tacks.entry) (decode area.now) }
{
    (0..NAME_SLOTS).any(|n| contradicts(area, NameSlot::at(n), name, tacks, clock))
}

// Whether the name has an active record.
pub fn is_pinned(area: &[u8], name: &[u8], clock: Minutes) -> bool
    requires { Stored area.now }
    ensures { result ≡ any (active_of name.now clock.0) (used (decode area.now).names) }
{
    (0..NAME_SLOTS).any(|n| holds_active(area, NameSlot::at(n), name, clock))
}
