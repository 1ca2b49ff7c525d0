// The verdict of step 4.
ghost use Rattle.std.specs.Prelude.{◌≡◌, false, get_or};
ghost use Rattle.std.proofs.Math.Option.{none};
ghost use Rattle.tack_extension.specs.Answers.{tack_bytes};
ghost use Rattle.pin_model.specs.Table.{active};
ghost use Rattle.pin_model.specs.Layout.{decode};
ghost use Rattle.pin_model.specs.Fits.{holds};
ghost use Rattle.pin_model.specs.Connection.{unless_empty};
ghost use Rattle.pin_model.specs.Judge.{verdict_by};
ghost use Rattle.pin_answers.specs.Numbers.{verdict_number};
ghost use Rattle.pin_records.specs.Holds.{Stored};
ghost use Rattle.pin_records.specs.Find.{is_free};
ghost use Rattle.pin_steps.specs.Steps.{shown_for};

use pin_answers::Verdict;
use pin_records::{find, read};
use pin_table::minutes::Minutes;
use pin_table::slots::NameSlot;
use tack_extension::fields;
use tack_extension::fields::Tack;

// Whether the slot's pin is active: its end is present and the clock before it.
pub fn is_active(area: &[u8], n: NameSlot, clock: Minutes) -> bool
    requires { Stored area.now }
    ensures { result ≡ holds (active clock.0) (get_or (decode area.now).names n none) }
{
    read::end(area, n).is_some_and(|end| clock < end)
}

// Whether the record of a used slot has the tack's key.
fn is_shown(area: &[u8], n: NameSlot, tack: &Tack) -> bool
    requires { Stored area.now × (is_free (get_or (decode area.now).names n none) ≡ false) }
    ensures { result ≡ holds (shown_for tack.now) (get_or (decode area.now).names n none) }
{
    read::pinned_to(area, n, fields::public_key(tack))
}

pub fn verdict_for(area: &[u8], name: &[u8], tack: Option<&Tack>, clock: Minutes) -> Verdict
    requires { Stored area.now × ((decode area.now).two ≡ false) }
    ensures { verdict_number result ≡ verdict_by name.now clock.0 (unless_empty (tack_bytes tack.entry)) (decode area.now) }
{
    let Some(n) = find::find_name(area, name) else {
        return Verdict::Unpinned;
    };
    if !is_active(area, n, clock) {
        return Verdict::Unpinned;
    }
    match tack {
        Some(tack) if is_shown(area, n, tack) => Verdict::Confirmed,
        _ => Verdict::Contradicted,
    }
}
