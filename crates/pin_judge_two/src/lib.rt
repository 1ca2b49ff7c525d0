// Judging one connection of edition two: the refusals in the paper's order, then its steps.
#![tactic(auto)]

ghost use Rattle.std.specs.Prelude.{◌≡◌, true};
ghost use Rattle.tack_extension_two.specs.AnswersTwo.{parts_read_two};
ghost use Rattle.pin_model.specs.Layout.{decode};
ghost use Rattle.pin_model.specs.Sound.{sound};
ghost use Rattle.pin_model.specs.Connection.{parts_two_of};
ghost use Rattle.pin_model.specs.Seen.{seen};
ghost use Rattle.pin_model.specs.Calls as calls;
ghost use Rattle.pin_answers.specs.Numbers.{judgement_two_answer};

use host_name::folding::Folded;
use pin_answers::{Judgement, Refusal};
use pin_model::{ChecksTwo, Connection};
use pin_refusals::{area, connection};
use pin_steps_two::apply;
use pin_table::slots;
use tack_extension_two::reader;
use tack_extension_two::reader::Tacks;

// The tacks and their flags, if the extension is well-formed: neither tack where none came.
fn read_extension<'a>(connection: &Connection<'a, ChecksTwo>) -> Option<Tacks<'a>>
    ensures { parts_read_two result ≡ parts_two_of (seen connection.now) }
{
    match connection.extension {
        Some(bytes) => reader::read(bytes),
        None => Some(Tacks::none()),
    }
}

// 12 to 16, 24, those of each tack, 22, and the steps where none applies, on a sound area of edition two. The name is taken as it
// stands.
fn judge_folded(area: &mut [u8], connection: &Connection<'_, ChecksTwo>) -> Judgement
    requires { (sound area.old ≡ true) × ((decode area.old).two ≡ true) }
    ensures answer { judgement_two_answer result ≡ calls.answer (calls.judge_two (seen connection.now)) area.old }
    ensures area { area.new ≡ calls.area_after (calls.judge_two (seen connection.now)) area.old }
{
    let clock = area::check_call(connection.name, connection.clock)?;
    connection::check_handshake(area, clock, connection.checks.handshake_finished)?;
    let tacks = read_extension(connection).ok_or(Refusal::ExtensionMalformed)?;
    pin_refusals_two::check_tacks(area, clock, tacks, connection.hash, connection.checks)?;
    Ok(apply::apply(area, connection.name, tacks, clock))
}

// Judges one finished connection of edition two: 10 to 16, 18 to 24 or 27, or a verdict and whether there was no room for a record
// that it wanted. Each of the two tacks has its own answers.
pub fn judge(area: &mut [u8], connection: &Connection<'_, ChecksTwo>) -> Judgement
    ensures answer { judgement_two_answer result ≡ calls.answered (calls.judge_two (seen connection.now)) area.old }
    ensures area { area.new ≡ calls.area_left (calls.judge_two (seen connection.now)) area.old }
{
    area::check_area(area)?;
    if !slots::is_two(area) {
        return Err(Refusal::OtherEdition);
    }
    let folded = Folded::of(connection.name);
    judge_folded(
        area,
        &Connection {
            name: folded.as_slice(),
            ..*connection
        },
    )
}
