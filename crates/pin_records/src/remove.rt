// Records that go.
ghost use Rattle.std.specs.Prelude.{◌≡◌, Bool, false, get_or};
ghost use Rattle.std.proofs.Math.Option.{none};
ghost use Rattle.octets.specs.Octets.{any};
ghost use Rattle.pin_model.specs.Slots.{used, freed};
ghost use Rattle.pin_model.specs.Table.{NameRecord, holding, pinned_to};
ghost use Rattle.pin_model.specs.Layout.{decode, key_at};
ghost use Rattle.pin_records.specs.Holds.{Holds, Stored, with_key, with_name, without_unnamed};
ghost use Rattle.pin_records.specs.Find.{is_free};
ghost use Rattle.pin_records.specs.Remove.{IsAsked, Tells};

use crate::{find, read};
use pin_table::slots;
use pin_table::slots::{
    KEY_SLOT_LENGTH, KEY_SLOTS, KeySlot, NAME_SLOT_LENGTH, NAME_SLOTS, NameSlot,
};

pub fn clear_name(area: &mut [u8], n: NameSlot)
    requires { Stored area.old }
    ensures { Holds area.new (with_name (decode area.old) n none) }
{
    octets::put_zeros(area, slots::name_place(n), NAME_SLOT_LENGTH);
}

// Each name slot whose record passes the test is cleared. The test looks at the area as it is by then: keys and edition are those of
// the start.
pub fn clear_names<F: Fn(&[u8], NameSlot) -> bool>(area: &mut [u8], passes: F)
    requires { Stored area.old × IsAsked (F.pre passes) (decode area.old) }
    ensures { (test : NameRecord → Bool) → Tells (F.post passes) (decode area.old) test → Holds area.new (holding (decode area.old) (decode area.old).keys (freed test (decode area.old).names)) }
{
    for i in 0..NAME_SLOTS {
        let n = NameSlot::at(i);
        if passes(area, n) {
            clear_name(area, n);
        }
    }
}

// A key that no name is left on.
pub fn clear_key(area: &mut [u8], k: KeySlot)
    requires { Stored area.old × (is_free (get_or (decode area.old).keys k none) ≡ false) × (any (pinned_to (key_at (get_or (decode area.old).keys k none))) (used (decode area.old).names) ≡ false) }
    ensures { Holds area.new (with_key (decode area.old) k none) }
{
    octets::put_zeros(area, slots::key_place(k), KEY_SLOT_LENGTH);
}

// Every key goes that no name is left on.
pub fn drop_unnamed(area: &mut [u8])
    requires { Stored area.old }
    ensures { Holds area.new (without_unnamed (decode area.old)) }
{
    'keys: for i in 0..KEY_SLOTS {
        let k = KeySlot::at(i);
        if find::key_is_free(area, k) {
            continue 'keys;
        }
        'names: for j in 0..NAME_SLOTS {
            if read::refers_to(area, NameSlot::at(j), k) {
                continue 'keys;
            }
        }
        clear_key(area, k);
    }
}
