// A call written as a gateway records it. A recording has no place for `learn_disabled`, and a night is played with that yes.
ghost use Rattle.std.specs.Prelude.{◌≡◌, true};
ghost use Rattle.tack_extension.specs.Answers.{writing, output};
ghost use Rattle.pin_model.specs.Connection.{connection, checks_by};
ghost use Rattle.recorded_call.specs.RecordedCall.{call_bytes, recordable};
ghost use Rattle.tack.specs.Extension.{writing_answer};

use crate::extension;
use crate::extension::WritingAnswer;
use pin_model::{Checks, Connection};

#[unsafe(no_mangle)]
pub extern "C" fn tack_call_write(
    clock: u64,
    name: &[u8],
    extension_came: bool,
    extension: &[u8],
    spki_sha256: &[u8],
    handshake_finished: bool,
    key_is_point: bool,
    signature_correct: bool,
    breaks_correct: u8,
    out: &mut [u8],
) -> WritingAnswer
    ensures answer { result ≡ writing_answer (writing (recordable (connection clock name.now extension_came extension.now spki_sha256.now (checks_by handshake_finished key_is_point signature_correct breaks_correct true))) (call_bytes (connection clock name.now extension_came extension.now spki_sha256.now (checks_by handshake_finished key_is_point signature_correct breaks_correct true))) out.old) }
    ensures written { out.new ≡ output (recordable (connection clock name.now extension_came extension.now spki_sha256.now (checks_by handshake_finished key_is_point signature_correct breaks_correct true))) (call_bytes (connection clock name.now extension_came extension.now spki_sha256.now (checks_by handshake_finished key_is_point signature_correct breaks_correct true))) out.old }
{
    let connection = Connection {
        clock,
        name,
        extension: extension_came.then_some(extension),
        hash: spki_sha256,
        checks: Checks {
            handshake_finished,
            key_is_point,
            signature_correct,
            breaks_correct,
            learn_disabled: true,
        },
    };
    extension::writing_answer(call_writer::write_call(&connection, out))
}
