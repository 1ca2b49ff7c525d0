// Step 3: every key record named by a break signature goes, with all its names.
ghost use Rattle.std.specs.Prelude.{◌≡◌, true, false, [], ◌∷◌, map, length, get_or};
ghost use Rattle.std.proofs.Math.Option.{none};
ghost use Rattle.tack_extension.specs.Extension.{breaks_length};
ghost use Rattle.tack_extension.specs.Tack.{break_key, break_signatures};
ghost use Rattle.pin_model.specs.Slots.{freed};
ghost use Rattle.pin_model.specs.Table.{holding, pinned_to};
ghost use Rattle.pin_model.specs.Layout.{decode, key_at};
ghost use Rattle.pin_model.specs.Judge.{break};
ghost use Rattle.pin_records.specs.Holds.{Holds, Stored};
ghost use Rattle.pin_records.specs.Find.{is_free};

use pin_records::{find, read, remove};
use pin_table::slots::KeySlot;
use tack_extension::fields;

// The names of a recorded key go.
fn drop_names(area: &mut [u8], k: KeySlot)
    requires { Stored area.old × (is_free (get_or (decode area.old).keys k none) ≡ false) }
    ensures { Holds area.new (holding (decode area.old) (decode area.old).keys (freed (pinned_to (key_at (get_or (decode area.old).keys k none))) (decode area.old).names)) }
{
    remove::clear_names(area, |area, n| read::refers_to(area, n, k));
}

fn break_key(area: &mut [u8], key: &[u8; 64])
    requires { Stored area.old }
    ensures { Holds area.new (break (key.now ∷ []) (decode area.old)) }
{
    let Some(k) = find::find_key(area, key) else {
        return;
    };
    drop_names(area, k);
    remove::clear_key(area, k);
}

// One break signature after the other; the same key twice does nothing the second time.
pub fn break_keys(area: &mut [u8], breaks: &[u8])
    requires { Stored area.old × (breaks_length (length breaks.now) ≡ true) }
    ensures { Holds area.new (break (map break_key (break_signatures breaks.now)) (decode area.old)) }
{
    for signed in breaks.as_chunks::<128>().0 {
        break_key(area, fields::break_key(signed));
    }
}
