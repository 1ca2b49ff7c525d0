// Each enabled tack in order extends its record, or makes one if the name has fewer than two.
ghost use Rattle.std.specs.Prelude.{◌≡◌, true, false, not, ◌&&◌};
ghost use Rattle.host_name.specs.Name.{well_formed};
ghost use Rattle.tack_extension.specs.Answers.{tack_bytes};
ghost use Rattle.pin_model.specs.Layout.{decode};
ghost use Rattle.pin_model.specs.Connection.{shown_in};
ghost use Rattle.pin_model.specs.JudgeTwo.{has_own, wants_own, room_of, make_own, learn_each, no_room_each};
ghost use Rattle.pin_records.specs.Holds.{Holds, Stored};
ghost use Rattle.pin_refusals_two.specs.Parts.{tacks_in_order};
ghost use Rattle.pin_steps_two.specs.SettledTwo.{SettledTwo};

use pin_creation::create;
use pin_records::find;
use pin_steps::extend;
use pin_table::minutes::Minutes;
use tack_extension::fields;
use tack_extension::fields::Tack;
use tack_extension_two::reader::Tacks;

// A record for the name and the tack's key, which has none. The answer is 'no room', with which nothing changes.
fn make_own(area: &mut [u8], name: &[u8], tack: &Tack, clock: Minutes) -> bool
    requires { Stored area.old × SettledTwo clock.0 (decode area.old) × (well_formed name.now ≡ true) × (has_own name.now tack.now (decode area.old) ≡ false) }
    ensures { (result ≡ (wants_own name.now tack.now (decode area.old) && not (room_of tack.now (decode area.old)))) × Holds area.new (make_own name.now clock.0 tack.now (decode area.old)) }
{
    if find::second_name(area, name).is_some() {
        return false;
    }
    match find::free_name(area) {
        Some(n) if create::key_fits(area, tack) => {
            create::store_new(area, n, name, tack, clock);
            false
        }
        _ => true,
    }
}

// One tack that is enabled. The answer is 'no room'.
fn learn_own(area: &mut [u8], name: &[u8], tack: &Tack, clock: Minutes) -> bool
    requires { Stored area.old × SettledTwo clock.0 (decode area.old) × (well_formed name.now ≡ true) }
    ensures { (result ≡ no_room_each name.now clock.0 (shown_in true tack.now) (decode area.old)) × Holds area.new (learn_each name.now clock.0 (shown_in true tack.now) (decode area.old)) }
{
    match find::find_pin(area, name, fields::public_key(tack)) {
        Some(n) => {
            extend::extend_at(area, n, clock);
            false
        }
        None => make_own(area, name, tack, clock),
    }
}

// The same, if the tack is there and its flag enables it.
fn learn_enabled(
    area: &mut [u8],
    name: &[u8],
    tack: Option<&Tack>,
    enabled: bool,
    clock: Minutes,
) -> bool
    requires { Stored area.old × SettledTwo clock.0 (decode area.old) × (well_formed name.now ≡ true) }
    ensures { (result ≡ no_room_each name.now clock.0 (shown_in enabled (tack_bytes tack.entry)) (decode area.old)) × Holds area.new (learn_each name.now clock.0 (shown_in enabled (tack_bytes tack.entry)) (decode area.old)) }
{
    match tack {
        Some(tack) if enabled => learn_own(area, name, tack, clock),
        _ => false,
    }
}

// Both tacks, the second on what the first leaves. The answer is 'no room' of either.
pub fn learn_each(area: &mut [u8], name: &[u8], tacks: Tacks<'_>, clock: Minutes) -> bool
    requires { Stored area.old × SettledTwo clock.0 (decode area.old) × (well_formed name.now ≡ true) }
    ensures { (result ≡ no_room_each name.now clock.0 (tacks_in_order tacks.entry) (decode area.old)) × Holds area.new (learn_each name.now clock.0 (tacks_in_order tacks.entry) (decode area.old)) }
{
    let first_lacks = learn_enabled(area, name, tacks.first, tacks.flags % 2 == 1, clock);
    let second_lacks = learn_enabled(area, name, tacks.second, tacks.flags / 2 % 2 == 1, clock);
    first_lacks | second_lacks
}
