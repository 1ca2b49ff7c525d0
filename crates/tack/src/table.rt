// The pin table: judging, deletion, inspection and starting.
ghost use Rattle.std.specs.Prelude.{◌≡◌, Ok, Some};
ghost use Rattle.pin_model.specs.Calls as calls;
ghost use Rattle.pin_model.specs.Connection.{connection, checks_by};
ghost use Rattle.pin_answers.specs.Numbers.{judgement_answer, inspection_answer};
ghost use Rattle.tack.specs.Table.{judgement_of, outcome_of, inspection_of};

use pin_answers::{Inspection, Judgement};
use pin_manage::{deletion, inspection, starting};
use pin_model::{Checks, Connection};

// tack_judgement
#[repr(C)]
#[derive(Clone, Copy)]
pub struct JudgementAnswer {
    pub number: u8,
    pub alert: u8,
    pub no_room: bool,
}

// tack_outcome
#[repr(C)]
#[derive(Clone, Copy)]
pub struct OutcomeAnswer {
    pub number: u8,
    pub alert: u8,
}

// tack_inspection
#[repr(C)]
#[derive(Clone, Copy)]
pub struct InspectionAnswer {
    pub number: u8,
    pub alert: u8,
    pub floor: u8,
    pub initial: u32,
    pub end: u32,
    pub minutes_left: i64,
}

// A judgement, with the alerts of its edition.
pub(crate) fn judgement_answer<F: Fn(u8) -> u8>(
    judgement: Judgement,
    alert_of: F,
) -> JudgementAnswer
    requires { F.IsAlwaysCallable alert_of }
    ensures number { result.number ≡ (judgement_answer judgement).number }
    ensures alert { F.post alert_of result.number result.alert }
    ensures no_room { result.no_room ≡ (judgement_answer judgement).no_room }
{
    let number = pin_answers::number_of(judgement);
    JudgementAnswer {
        number,
        alert: alert_of(number),
        no_room: judgement.is_ok_and(|judged| judged.no_room),
    }
}

#[unsafe(no_mangle)]
pub extern "C" fn tack_judge(
    table: &mut [u8],
    clock: u64,
    name: &[u8],
    extension_came: bool,
    extension: &[u8],
    spki_sha256: &[u8],
    handshake_finished: bool,
    key_is_point: bool,
    signature_correct: bool,
    breaks_correct: u8,
    learn_disabled: bool,
) -> JudgementAnswer
    ensures answer { result ≡ judgement_of (calls.answered (calls.judge (connection clock name.now extension_came extension.now spki_sha256.now (checks_by handshake_finished key_is_point signature_correct breaks_correct learn_disabled))) table.old) }
    ensures table { table.new ≡ calls.area_left (calls.judge (connection clock name.now extension_came extension.now spki_sha256.now (checks_by handshake_finished key_is_point signature_correct breaks_correct learn_disabled))) table.old }
{
    let connection = Connection {
        clock,
        name,
        extension: extension_came.then_some(extension),
        hash: spki_sha256,
        checks: Checks {
            handshake_finished,
            key_is_point,
            signature_correct,
            breaks_correct,
            learn_disabled,
        },
    };
    judgement_answer(pin_judge::judge(table, &connection), pin_answers::alert_of)
}

// A number of edition one with its alert.
#[tactic(auto, unfolding(crate::specs::Table::outcome_of))]
fn outcome(number: u8) -> OutcomeAnswer
    ensures { result ≡ outcome_of (calls.plain number) }
{
    OutcomeAnswer {
        number,
        alert: pin_answers::alert_of(number),
    }
}

#[unsafe(no_mangle)]
pub extern "C" fn tack_delete(table: &mut [u8], name: &[u8]) -> OutcomeAnswer
    ensures answer { result ≡ outcome_of (calls.answered (calls.delete name.now) table.old) }
    ensures table { table.new ≡ calls.area_left (calls.delete name.now) table.old }
{
    outcome(pin_answers::number_of(deletion::delete(table, name)))
}

// An inspection that gives no record.
#[tactic(auto, unfolding(crate::specs::Table::inspection_of))]
fn no_record(number: u8) -> InspectionAnswer
    ensures { result ≡ inspection_of (calls.plain number) }
{
    InspectionAnswer {
        number,
        alert: pin_answers::alert_of(number),
        floor: 0,
        initial: 0,
        end: 0,
        minutes_left: 0,
    }
}

// What a record says: 5 without an end, 6 with one.
#[tactic(auto, unfolding(crate::specs::Table::inspection_of, tack_extension::specs::Answers::alert_of))]
fn record_answer(found: Inspection) -> InspectionAnswer
    ensures { result ≡ inspection_of (inspection_answer (Ok (Some found))) }
{
    let (number, end, minutes_left) = match found.end {
        None => (5, 0, 0),
        Some(end) => (6, end.end, end.minutes_left),
    };
    InspectionAnswer {
        number,
        alert: 0,
        floor: found.floor,
        initial: found.initial,
        end,
        minutes_left,
    }
}

#[unsafe(no_mangle)]
pub extern "C" fn tack_inspect(
    table: &[u8],
    name: &[u8],
    clock: u64,
    second: bool,
) -> InspectionAnswer
    ensures { result ≡ inspection_of (calls.answered (calls.inspect second name.now clock) table.now) }
{
    match inspection::inspect(table, name, clock, second) {
        Ok(Some(found)) => record_answer(found),
        Ok(None) => no_record(4),
        Err(refusal) => no_record(u8::from(refusal)),
    }
}

#[unsafe(no_mangle)]
pub extern "C" fn tack_start(table: &mut [u8], edition_two: bool) -> OutcomeAnswer
    ensures answer { result ≡ outcome_of (calls.answered (calls.start edition_two) table.old) }
    ensures table { table.new ≡ calls.area_left (calls.start edition_two) table.old }
{
    match starting::start(table, edition_two) {
        Ok(()) => outcome(7),
        Err(refusal) => outcome(u8::from(refusal)),
    }
}
