// The reader of one recorded call: a field behind the other. The first that is cut off or bad ends the reading.
ghost use Rattle.std.specs.Prelude.{◌≡◌, length, eqb, ◌/◌, ◌%◌, ◌<◌};
ghost use Rattle.pin_model.specs.Seen.{seen};
ghost use Rattle.recorded_call.specs.RecordedCall.{recorded, checks_of};
ghost use Rattle.recorded_call.specs.Fronts.{front, Within};

use crate::field;
use crate::front::{CallError, Taken};
use pin_model::{Checks, Connection};

// Whether the answers' bit of this power is set.
fn is_yes(answers: u8, power: u8) -> bool
    requires { 0 < power }
    ensures { result ≡ eqb (answers / power % 2) 1 }
{
    answers / power % 2 == 1
}

// The caller's answers. A night is played the old way: a disabled server gets a record too.
fn checks_of(answers: &[u8]) -> Checks
    requires { length answers.now ≡ 2 }
    ensures { result ≡ checks_of answers.now }
{
    let bits = answers[0];
    Checks {
        handshake_finished: is_yes(bits, 1),
        key_is_point: is_yes(bits, 2),
        signature_correct: is_yes(bits, 4),
        breaks_correct: answers[1],
        learn_disabled: true,
    }
}

// The call in front of s. The longest has 4,452 bytes, so what is cut off has fewer.
pub fn take_call(s: &[u8]) -> Result<Taken<'_, Connection<'_, Checks>>, CallError>
    ensures call { front seen result ≡ recorded s.now }
    ensures within { Within s.now result }
{
    let clock = field::take(s, 1, 4, 4)?;
    let name = field::take(clock.rest, 2, 0, 300)?;
    let answers = field::take_answers(name.rest)?;
    let hash = field::take(answers.rest, 4, 32, 32)?;
    let extension = field::take_extension(hash.rest)?;
    let end = field::take(extension.rest, 6, 0, 0)?;
    let call = Connection {
        clock: u64::from(octets::number_at::<4>(clock.value, 0)),
        name: name.value,
        extension: extension.value,
        hash: hash.value,
        checks: checks_of(answers.value),
    };
    Ok(Taken {
        value: call,
        rest: end.rest,
    })
}
