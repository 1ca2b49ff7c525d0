// Edition two: its extension read and written, and judging.
ghost use Rattle.std.specs.Prelude.{◌≡◌, length};
ghost use Rattle.octets.specs.Octets.{part};
ghost use Rattle.tack_extension.specs.Answers.{writing, output};
ghost use Rattle.tack_extension_two.specs.ExtensionTwo.{parts_in, good_two, bytes_of_two, parse_two};
ghost use Rattle.pin_model.specs.Connection.{connection};
ghost use Rattle.pin_model.specs.Calls as calls;
ghost use Rattle.tack.specs.Extension.{span_of, writing_answer};
ghost use Rattle.tack.specs.ExtensionTwo.{reading_two_answer, tack_in, tack_start};
ghost use Rattle.tack.specs.Table.{checks_two, judgement_of};

use crate::extension::{ReadingAnswer, Span, WritingAnswer};
use crate::table::JudgementAnswer;
use crate::{extension, table};
use pin_model::{ChecksTwo, Connection};
use tack_extension_two::{reader, writer};

// The activation holds the flags.
#[unsafe(no_mangle)]
pub extern "C" fn tack2_extension_read(bytes: &[u8]) -> ReadingAnswer
    ensures { result ≡ reading_two_answer (parse_two bytes.now) }
{
    match reader::read(bytes) {
        Some(tacks) => ReadingAnswer {
            number: 9,
            alert: 0,
            activation: tacks.flags,
        },
        None => ReadingAnswer {
            number: 16,
            alert: 42,
            activation: 0,
        },
    }
}

// The first tack, or the second.
#[unsafe(no_mangle)]
pub extern "C" fn tack2_extension_tack(bytes: &[u8], second: bool) -> Span
    ensures where_it_is { result ≡ span_of (tack_start second) (length (tack_in second bytes.now)) }
    ensures what_it_holds { part bytes.now result.start result.length ≡ tack_in second bytes.now }
{
    if second {
        let tack = reader::second_tack(bytes);
        return extension::span_at(168, tack.len());
    }
    let tack = reader::first_tack(bytes);
    extension::span_at(2, tack.len())
}

// From one part that holds one or two tacks, and the flags.
#[unsafe(no_mangle)]
pub extern "C" fn tack2_extension_write(tacks: &[u8], flags: u8, out: &mut [u8]) -> WritingAnswer
    ensures answer { result ≡ writing_answer (writing (good_two (parts_in tacks.now flags)) (bytes_of_two (parts_in tacks.now flags)) out.old) }
    ensures written { out.new ≡ output (good_two (parts_in tacks.now flags)) (bytes_of_two (parts_in tacks.now flags)) out.old }
{
    extension::writing_answer(writer::write(tacks, flags, out))
}

// Bit 0 of the caller's answers is the first tack's, bit 1 the second's.
#[unsafe(no_mangle)]
pub extern "C" fn tack2_judge(
    table: &mut [u8],
    clock: u64,
    name: &[u8],
    extension_came: bool,
    extension: &[u8],
    spki_sha256: &[u8],
    handshake_finished: bool,
    keys_are_points: u8,
    signatures_correct: u8,
) -> JudgementAnswer
    ensures answer { result ≡ judgement_of (calls.answered (calls.judge_two (connection clock name.now extension_came extension.now spki_sha256.now (checks_two handshake_finished keys_are_points signatures_correct))) table.old) }
    ensures table { table.new ≡ calls.area_left (calls.judge_two (connection clock name.now extension_came extension.now spki_sha256.now (checks_two handshake_finished keys_are_points signatures_correct))) table.old }
{
    let connection = Connection {
        clock,
        name,
        extension: extension_came.then_some(extension),
        hash: spki_sha256,
        checks: ChecksTwo {
            handshake_finished,
            first_is_point: keys_are_points % 2 == 1,
            first_correct: signatures_correct % 2 == 1,
            second_is_point: keys_are_points / 2 % 2 == 1,
            second_correct: signatures_correct / 2 % 2 == 1,
        },
    };
    table::judgement_answer(
        pin_judge_two::judge(table, &connection),
        pin_answers::alert_of_two,
    )
}
