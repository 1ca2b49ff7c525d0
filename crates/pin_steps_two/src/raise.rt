// The floors of the tacks' keys rise to their min_generations, and latest becomes the clock.
ghost use Rattle.std.specs.Prelude.{true};
ghost use Rattle.pin_model.specs.Layout.{decode};
ghost use Rattle.pin_model.specs.Connection.{shown_in};
ghost use Rattle.pin_model.specs.JudgeTwo.{raise_each, raised_at};
ghost use Rattle.pin_records.specs.Holds.{Holds, Stored};
ghost use Rattle.pin_refusals_two.specs.Parts.{both_in};

use pin_records::store;
use pin_steps::raise;
use pin_table::minutes::Minutes;
use tack_extension::fields::Tack;
use tack_extension_two::reader::Tacks;

// One tack.
fn raise_shown(area: &mut [u8], tack: &Tack)
    requires { Stored area.old }
    ensures { Holds area.new (raise_each (shown_in true tack.now) (decode area.old)) }
{
    raise::raise_floor(area, tack);
}

pub fn raise_floors(area: &mut [u8], tacks: Tacks<'_>, clock: Minutes)
    requires { Stored area.old }
    ensures { Holds area.new (raised_at clock.0 (both_in tacks.entry) (decode area.old)) }
{
    if let Some(first) = tacks.first {
        raise_shown(area, first);
    }
    if let Some(second) = tacks.second {
        raise_shown(area, second);
    }
    store::store_latest(area, clock);
}
