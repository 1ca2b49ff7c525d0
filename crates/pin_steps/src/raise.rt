// Step 1: the floor of the tack's key rises to the tack's min_generation.
ghost use Rattle.pin_model.specs.Layout.{decode};
ghost use Rattle.pin_model.specs.Judge.{raise};
ghost use Rattle.pin_records.specs.Holds.{Holds, Stored};

use pin_records::{find, read, store};
use tack_extension::fields;
use tack_extension::fields::Tack;

pub fn raise_floor(area: &mut [u8], tack: &Tack)
    requires { Stored area.old }
    ensures { Holds area.new (raise tack.now (decode area.old)) }
{
    let Some(k) = find::find_key(area, fields::public_key(tack)) else {
        return;
    };
    let least = fields::min_generation(tack);
    if read::floor(area, k) < least {
        store::store_floor(area, k, least);
    }
}
