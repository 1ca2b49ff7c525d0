// The steps together.
ghost use Rattle.std.specs.Prelude.{◌≡◌, true, Ok};
ghost use Rattle.host_name.specs.Name.{well_formed};
ghost use Rattle.pin_model.specs.Layout.{decode, encode};
ghost use Rattle.pin_model.specs.JudgeTwo.{verdict_by_two, raised_at, learn_two, no_room_in_two};
ghost use Rattle.pin_model.specs.Calls as calls;
ghost use Rattle.pin_answers.specs.Numbers.{judgement_two_answer};
ghost use Rattle.pin_records.specs.Holds.{Stored};
ghost use Rattle.pin_refusals_two.specs.Parts.{tacks_in_order};
ghost use Rattle.pin_steps_two.specs.SettledTwo.{SettledTwo};
ghost use Rattle.pin_steps_two.specs.StepsTwo.{steps_two, steps_answer_two};

use crate::{learn, raise, removal, verdict};
use pin_answers::{Judged, Verdict};
use pin_table::minutes::Minutes;
use tack_extension_two::reader::Tacks;

// From the verdict on, where floors are raised and latest is the clock. Contradicted, nothing more changes.
fn from_verdict(area: &mut [u8], name: &[u8], tacks: Tacks<'_>, clock: Minutes) -> Judged
    requires { Stored area.old × SettledTwo clock.0 (decode area.old) × (well_formed name.now ≡ true) }
    ensures { (judgement_two_answer (Ok result) ≡ calls.judgement true (verdict_by_two name.now clock.0 (tacks_in_order tacks.entry) (decode area.old)) (no_room_in_two name.now clock.0 (tacks_in_order tacks.entry) (decode area.old))) × (area.new ≡ encode (learn_two name.now clock.0 (tacks_in_order tacks.entry) (decode area.old))) }
{
    if verdict::is_contradicted(area, name, tacks, clock) {
        return Judged {
            verdict: Verdict::Contradicted,
            no_room: false,
        };
    }
    let pinned = verdict::is_pinned(area, name, clock);
    removal::remove_records(area, name, tacks, clock);
    let no_room = learn::learn_each(area, name, tacks, clock);
    let verdict = if pinned {
        Verdict::Confirmed
    } else {
        Verdict::Unpinned
    };
    Judged { verdict, no_room }
}

// All steps, where nothing refuses.
pub fn apply(area: &mut [u8], name: &[u8], tacks: Tacks<'_>, clock: Minutes) -> Judged
    requires { Stored area.old × SettledTwo clock.0 (raised_at clock.0 (tacks_in_order tacks) (decode area.old)) × (well_formed name.now ≡ true) }
    ensures { (judgement_two_answer (Ok result) ≡ steps_answer_two name.now clock.0 (tacks_in_order tacks.entry) (decode area.old)) × (area.new ≡ encode (steps_two name.now clock.0 (tacks_in_order tacks.entry) (decode area.old))) }
{
    raise::raise_floors(area, tacks, clock);
    from_verdict(area, name, tacks, clock)
}
