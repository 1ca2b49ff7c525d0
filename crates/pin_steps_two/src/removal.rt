// The removals: inactive records of the name with no matching enabled tack go, as do keys left without names.
ghost use Rattle.std.specs.Prelude.{◌≡◌, get_or};
ghost use Rattle.std.proofs.Math.Option.{none};
ghost use Rattle.pin_model.specs.Slots.{freed};
ghost use Rattle.pin_model.specs.Table.{holding, without_all};
ghost use Rattle.pin_model.specs.Layout.{decode};
ghost use Rattle.pin_model.specs.Fits.{holds};
ghost use Rattle.pin_model.specs.JudgeTwo.{is_removed};
ghost use Rattle.pin_records.specs.Holds.{Holds, Stored};
ghost use Rattle.pin_refusals_two.specs.Parts.{tacks_in_order};

use crate::matching;
use pin_records::{find, remove};
use pin_steps::verdict;
use pin_table::minutes::Minutes;
use pin_table::slots::NameSlot;
use tack_extension_two::reader::Tacks;

// Whether the slot has such a record.
fn is_removed(area: &[u8], n: NameSlot, name: &[u8], tacks: Tacks<'_>, clock: Minutes) -> bool
    requires { Stored area.now }
    ensures { result ≡ holds (is_removed name.now clock.0 (tacks_in_order tacks.entry)) (get_or (decode area.now).names n none) }
{
    find::holds_name(area, n, name)
        && !verdict::is_active(area, n, clock)
        && !matching::is_enabled(area, n, tacks)
}

fn drop_names(area: &mut [u8], name: &[u8], tacks: Tacks<'_>, clock: Minutes)
    requires { Stored area.old }
    ensures { Holds area.new (holding (decode area.old) (decode area.old).keys (freed (is_removed name.now clock.0 (tacks_in_order tacks.entry)) (decode area.old).names)) }
{
    remove::clear_names(area, |area, n| is_removed(area, n, name, tacks, clock));
}

pub fn remove_records(area: &mut [u8], name: &[u8], tacks: Tacks<'_>, clock: Minutes)
    requires { Stored area.old }
    ensures { Holds area.new (without_all (is_removed name.now clock.0 (tacks_in_order tacks.entry)) (decode area.old)) }
{
    drop_names(area, name, tacks, clock);
    remove::drop_unnamed(area);
}
