// Step 2(i), and the same in edition two: the pin of the name and the tack's key lasts longer.
ghost use Rattle.std.specs.Prelude.{◌≡◌, true, false, ◌≤◌, get_or};
ghost use Rattle.std.proofs.Math.Option.{none};
ghost use Rattle.pin_model.specs.Table.{clock_limit, settled_at};
ghost use Rattle.pin_model.specs.Layout.{decode};
ghost use Rattle.pin_model.specs.SoundTable.{sound_table};
ghost use Rattle.pin_model.specs.Judge.{extend};
ghost use Rattle.pin_records.specs.Holds.{Holds, Stored, with_name};
ghost use Rattle.pin_records.specs.Find.{is_free, initial_at};
ghost use Rattle.pin_steps.specs.Steps.{extended_at};

use pin_records::{find, read, store};
use pin_table::minutes::Minutes;
use pin_table::slots::NameSlot;
use tack_extension::fields;
use tack_extension::fields::Tack;

// The pin of a used slot. Its initial is not after the clock, so the difference below cannot wrap.
pub fn extend_at(area: &mut [u8], n: NameSlot, clock: Minutes)
    requires { Stored area.old × (is_free (get_or (decode area.old).names n none) ≡ false) × (clock.0 ≤ clock_limit) × (initial_at (get_or (decode area.old).names n none) ≤ clock.0) }
    ensures { Holds area.new (with_name (decode area.old) n (extended_at clock.0 (get_or (decode area.old).names n none))) }
{
    let end = clock.pin_end(read::initial(area, n));
    store::store_end(area, n, end);
}

// Where activation is enabled. The table is sound with the clock in latest's place, so no record's initial is after the clock.
pub fn extend_pin(area: &mut [u8], name: &[u8], tack: &Tack, clock: Minutes)
    requires { Stored area.old × (sound_table (settled_at clock.0 (decode area.old)) ≡ true) × ((decode area.old).two ≡ false) }
    ensures { Holds area.new (extend true name.now clock.0 tack.now (decode area.old)) }
{
    let Some(n) = find::find_name(area, name) else {
        return;
    };
    if read::pinned_to(area, n, fields::public_key(tack)) {
        extend_at(area, n, clock);
    }
}
