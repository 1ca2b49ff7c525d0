// Whether a call's tacks show the key of a name's record.
ghost use Rattle.std.specs.Prelude.{◌≡◌, true, false, get_or};
ghost use Rattle.std.proofs.Math.Option.{none};
ghost use Rattle.tack_extension.specs.Answers.{tack_bytes};
ghost use Rattle.pin_model.specs.Layout.{decode};
ghost use Rattle.pin_model.specs.Fits.{holds};
ghost use Rattle.pin_model.specs.Connection.{shown_in};
ghost use Rattle.pin_records.specs.Holds.{Stored};
ghost use Rattle.pin_records.specs.Find.{is_free};
ghost use Rattle.pin_refusals_two.specs.Parts.{tacks_in_order, both_in};
ghost use Rattle.pin_steps_two.specs.Shown.{shown_for, enabled_for};

use pin_records::read;
use pin_table::slots::NameSlot;
use tack_extension::fields;
use tack_extension::fields::Tack;
use tack_extension_two::reader::Tacks;

// One tack, and the record of a used name slot.
fn shows_key(area: &[u8], n: NameSlot, tack: &Tack) -> bool
    requires { Stored area.now × (is_free (get_or (decode area.now).names n none) ≡ false) }
    ensures { result ≡ holds (shown_for (shown_in true tack.now)) (get_or (decode area.now).names n none) }
{
    read::pinned_to(area, n, fields::public_key(tack))
}

// The same, if the tack is there.
fn shows(area: &[u8], n: NameSlot, tack: Option<&Tack>) -> bool
    requires { Stored area.now × (is_free (get_or (decode area.now).names n none) ≡ false) }
    ensures { result ≡ holds (shown_for (shown_in true (tack_bytes tack.entry))) (get_or (decode area.now).names n none) }
{
    tack.is_some_and(|tack| shows_key(area, n, tack))
}

pub fn is_shown(area: &[u8], n: NameSlot, tacks: Tacks<'_>) -> bool
    requires { Stored area.now × (is_free (get_or (decode area.now).names n none) ≡ false) }
    ensures { result ≡ holds (shown_for (both_in tacks.entry)) (get_or (decode area.now).names n none) }
{
    shows(area, n, tacks.first) || shows(area, n, tacks.second)
}

// One tack, and whether its flag enables it.
fn shows_enabled(area: &[u8], n: NameSlot, tack: Option<&Tack>, enabled: bool) -> bool
    requires { Stored area.now × (is_free (get_or (decode area.now).names n none) ≡ false) }
    ensures { result ≡ holds (enabled_for (shown_in enabled (tack_bytes tack.entry))) (get_or (decode area.now).names n none) }
{
    enabled && shows(area, n, tack)
}

// Bit 0 enables the first tack, bit 1 the second.
pub fn is_enabled(area: &[u8], n: NameSlot, tacks: Tacks<'_>) -> bool
    requires { Stored area.now × (is_free (get_or (decode area.now).names n none) ≡ false) }
    ensures { result ≡ holds (enabled_for (tacks_in_order tacks.entry)) (get_or (decode area.now).names n none) }
{
    shows_enabled(area, n, tacks.first, tacks.flags % 2 == 1)
        || shows_enabled(area, n, tacks.second, tacks.flags / 2 % 2 == 1)
}
