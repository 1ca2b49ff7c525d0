// Records written into slots.
ghost use Rattle.std.specs.Prelude.{◌≡◌, true, false, ◌≤◌, length, get_or};
ghost use Rattle.std.proofs.Math.Option.{none, some};
ghost use Rattle.pin_model.specs.Table.{key_recorded, settled_at, key_record, name_record};
ghost use Rattle.pin_model.specs.Layout.{decode, key_at};
ghost use Rattle.pin_records.specs.Holds.{Holds, Stored, with_key, with_name};
ghost use Rattle.pin_records.specs.Find.{is_free};
ghost use Rattle.pin_records.specs.Store.{with_end, with_floor, Fresh};

use pin_table::minutes::Minutes;
use pin_table::slots;
use pin_table::slots::{END_AT, END_PRESENT_AT, FLOOR_AT, KeySlot, LATEST_AT, NameSlot};

pub fn store_latest(area: &mut [u8], clock: Minutes)
    requires { Stored area.old }
    ensures { Holds area.new (settled_at clock.0 (decode area.old)) }
{
    octets::put_number::<4>(area, LATEST_AT, clock.count());
}

// The floor of a recorded key.
pub fn store_floor(area: &mut [u8], k: KeySlot, floor: u8)
    requires { Stored area.old × (is_free (get_or (decode area.old).keys k none) ≡ false) }
    ensures { Holds area.new (with_key (decode area.old) k (with_floor floor (get_or (decode area.old).keys k none))) }
{
    let at = slots::key_place(k);
    area[at + FLOOR_AT] = floor;
}

// A key that has no record, into a free slot.
pub fn store_key(area: &mut [u8], k: KeySlot, key: &[u8; 64], floor: u8)
    requires { Stored area.old × (is_free (get_or (decode area.old).keys k none) ≡ true) × (key_recorded key.now (decode area.old) ≡ false) }
    ensures { Holds area.new (with_key (decode area.old) k (some (key_record key.now floor))) }
{
    let at = slots::key_place(k);
    let at_zeros = octets::put_part(area, at, &[1, floor]);
    let at_key = octets::put_zeros(area, at_zeros, 6);
    octets::put_part(area, at_key, key);
}

// The end of a name's record.
pub fn store_end(area: &mut [u8], n: NameSlot, end: Minutes)
    requires { Stored area.old × (is_free (get_or (decode area.old).names n none) ≡ false) }
    ensures { Holds area.new (with_name (decode area.old) n (with_end end.0 (get_or (decode area.old).names n none))) }
{
    let at = slots::name_place(n);
    octets::put_number::<4>(area, at + END_AT, end.count());
    area[at + END_PRESENT_AT] = 1;
}

// A new record of a name, pinned to the key of a used key slot.
pub fn store_name(area: &mut [u8], n: NameSlot, k: KeySlot, name: &[u8], clock: Minutes)
    requires { Stored area.old × (is_free (get_or (decode area.old).keys k none) ≡ false) × (length name.now ≤ 253) × Fresh (decode area.old).two name.now (key_at (get_or (decode area.old).keys k none)) n (decode area.old).names }
    ensures { Holds area.new (with_name (decode area.old) n (some (name_record name.now (key_at (get_or (decode area.old).keys k none)) clock.0 none))) }
{
    let at = slots::name_place(n);
    let key_number = k.number() as u8;
    let name_length = name.len() as u8;
    let at_initial = octets::put_part(area, at, &[1, key_number, name_length, 0]);
    let at_end = octets::put_number::<4>(area, at_initial, clock.count());
    let at_name = octets::put_zeros(area, at_end, 8);
    let at_padding = octets::put_part(area, at_name, name);
    octets::put_zeros(area, at_padding, 256 - name.len());
}
