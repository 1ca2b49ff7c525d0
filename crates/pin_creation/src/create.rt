// Step 2(ii): a new record, where the name has none, or an inactive one with another key.
ghost use Rattle.std.specs.Prelude.{◌≡◌, true, false, not, ◌<◌, length, get_or, set};
ghost use Rattle.std.proofs.Math.Option.{none, some};
ghost use Rattle.octets.specs.Octets.{any};
ghost use Rattle.host_name.specs.Name.{well_formed};
ghost use Rattle.tack_extension.specs.Tack.{public_key};
ghost use Rattle.pin_model.specs.Slots.{used};
ghost use Rattle.pin_model.specs.Table.{key_is, name_is, name_recorded, pinned_to, settled_at};
ghost use Rattle.pin_model.specs.Layout.{decode};
ghost use Rattle.pin_model.specs.SoundTable.{sound_table};
ghost use Rattle.pin_model.specs.Fits.{holds};
ghost use Rattle.pin_model.specs.Judge.{wants_record, room_for, new_name, create, no_room_for, keyed_for, with_record};
ghost use Rattle.pin_model.specs.JudgeTwo.{key_room};
ghost use Rattle.pin_records.specs.Holds.{Holds, Stored, with_name};
ghost use Rattle.pin_records.specs.Find.{is_free};
ghost use Rattle.pin_records.specs.Store.{Fresh};
ghost use Rattle.pin_steps.specs.Steps.{key_of_name, with_keys};

use pin_records::{find, read, remove, store};
use pin_steps::verdict;
use pin_table::minutes::Minutes;
use pin_table::slots::{KeySlot, NAME_SLOTS, NameSlot};
use tack_extension::fields;
use tack_extension::fields::Tack;

fn wants_record(area: &[u8], name: &[u8], tack: &Tack, clock: Minutes, may_record: bool) -> bool
    requires { Stored area.now × ((decode area.now).two ≡ false) }
    ensures { result ≡ wants_record may_record name.now clock.0 tack.now (decode area.now) }
{
    if !may_record {
        return false;
    }
    let Some(n) = find::find_name(area, name) else {
        return true;
    };
    !read::pinned_to(area, n, fields::public_key(tack)) && !verdict::is_active(area, n, clock)
}

// Whether the record in a used name slot is the only one on its key.
fn last_on_key(area: &[u8], n: NameSlot) -> bool
    requires { Stored area.now × (is_free (get_or (decode area.now).names n none) ≡ false) }
    ensures { result ≡ not (any (pinned_to (key_of_name (get_or (decode area.now).names n none))) (used (set (decode area.now).names n none))) }
{
    let k = read::key_of(area, n);
    (0..NAME_SLOTS).all(|m| m == n.number() || !read::refers_to(area, NameSlot::at(m), k))
}

// Whether the tack's key has a record, or a slot is free for one.
pub fn key_fits(area: &[u8], tack: &Tack) -> bool
    requires { Stored area.now }
    ensures { result ≡ key_room tack.now (decode area.now) }
{
    find::find_key(area, fields::public_key(tack)).is_some() || find::free_key(area).is_some()
}

// Room for a record: a new name takes a free slot; a recorded one keeps its own, and its key goes if no other name is on it.
fn has_room(area: &[u8], name: &[u8], tack: &Tack, clock: Minutes) -> bool
    requires { Stored area.now × (sound_table (settled_at clock.0 (decode area.now)) ≡ true) × ((decode area.now).two ≡ false) }
    ensures { result ≡ room_for name.now tack.now (decode area.now) }
{
    match find::find_name(area, name) {
        Some(n) => key_fits(area, tack) || last_on_key(area, n),
        None => find::free_name(area).is_some() && key_fits(area, tack),
    }
}

// The slot of the key's record, made in the lowest free slot where there was none. There is room for it, so one is found.
fn take_key(area: &mut [u8], tack: &Tack) -> KeySlot
    requires { Stored area.old × (key_room tack.now (decode area.old) ≡ true) }
    ensures { (holds (key_is (public_key tack.now)) (get_or (keyed_for tack.now (decode area.old).keys) result none) ≡ true) × Holds area.new (with_keys (keyed_for tack.now (decode area.old).keys) (decode area.old)) }
{
    let key = fields::public_key(tack);
    if let Some(k) = find::find_key(area, key) {
        return k;
    }
    let k = find::free_key(area).unwrap();
    store::store_key(area, k, key, fields::min_generation(tack));
    k
}

// A record of the name and the tack's key in slot n, which may take it. There is room for the key.
pub fn store_new(area: &mut [u8], n: NameSlot, name: &[u8], tack: &Tack, clock: Minutes)
    requires { Stored area.old × (well_formed name.now ≡ true) × Fresh (decode area.old).two name.now (public_key tack.now) n (decode area.old).names × (key_room tack.now (decode area.old) ≡ true) }
    ensures { Holds area.new (with_name (with_keys (keyed_for tack.now (decode area.old).keys) (decode area.old)) n (some (new_name name.now clock.0 tack.now))) }
{
    let k = take_key(area, tack);
    store::store_name(area, n, k, name, clock);
}

// A record for a name that has none, where there is room: a free slot is found.
fn add(area: &mut [u8], name: &[u8], tack: &Tack, clock: Minutes)
    requires { Stored area.old × (well_formed name.now ≡ true) × (sound_table (settled_at clock.0 (decode area.old)) ≡ true) × (name_recorded name.now (decode area.old) ≡ false) × (room_for name.now tack.now (decode area.old) ≡ true) }
    ensures { Holds area.new (with_record name.now clock.0 tack.now (decode area.old)) }
{
    let n = find::free_name(area).unwrap();
    store_new(area, n, name, tack, clock);
}

// A record in place of the one in slot n, where there is room: it keeps its slot, and its old key goes if no name is left.
fn replace(area: &mut [u8], n: NameSlot, name: &[u8], tack: &Tack, clock: Minutes)
    requires { Stored area.old × (well_formed name.now ≡ true) × (sound_table (settled_at clock.0 (decode area.old)) ≡ true) × (holds (name_is name.now) (get_or (decode area.old).names n none) ≡ true) × (wants_record true name.now clock.0 tack.now (decode area.old) ≡ true) × (room_for name.now tack.now (decode area.old) ≡ true) × ((decode area.old).two ≡ false) }
    ensures { Holds area.new (with_record name.now clock.0 tack.now (decode area.old)) }
{
    remove::clear_name(area, n);
    remove::drop_unnamed(area);
    store_new(area, n, name, tack, clock);
}

// Step 2(ii) whole, for a call that may make a record or may not. The answer is 'no room', with which nothing changes.
pub fn create_record(
    area: &mut [u8],
    name: &[u8],
    tack: &Tack,
    clock: Minutes,
    may_record: bool,
) -> bool
    requires { Stored area.old × (well_formed name.now ≡ true) × (sound_table (settled_at clock.0 (decode area.old)) ≡ true) × ((decode area.old).two ≡ false) }
    ensures { (result ≡ no_room_for may_record name.now clock.0 tack.now (decode area.old)) × Holds area.new (create may_record name.now clock.0 tack.now (decode area.old)) }
{
    if !wants_record(area, name, tack, clock, may_record) {
        return false;
    }
    if !has_room(area, name, tack, clock) {
        return true;
    }
    match find::find_name(area, name) {
        Some(n) => replace(area, n, name, tack, clock),
        None => add(area, name, tack, clock),
    }
    false
}
