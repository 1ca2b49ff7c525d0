// The writer: one call as it is recorded.
#![tactic(auto)]

ghost use Rattle.std.specs.Prelude.{◌≡◌, true, ◌+◌, ◌≤◌, ◌<◌, length, is_some};
ghost use Rattle.octets.specs.Octets.{put, big_endian};
ghost use Rattle.tack_extension.specs.Answers.{writing, output};
ghost use Rattle.pin_model.specs.Seen.{seen, bytes_in};
ghost use Rattle.recorded_call.specs.RecordedCall.{field_bytes, answer_byte, extension_bytes, call_bytes, recordable};

use pin_model::{Checks, Connection};
use tack_extension::answers::WritingError;

// Whether it can be recorded.
#[tactic(auto, using(std::proofs::lemmas::Bool::Decides::nat_tests), unfolding(recorded_call::specs::RecordedCall::recordable))]
fn is_recordable(connection: &Connection<'_, Checks>) -> bool
    ensures { result ≡ recordable (seen connection.now) }
{
    connection.clock <= u64::from(u32::MAX)
        && connection.name.len() <= 300
        && connection.hash.len() == 32
        && connection
            .extension
            .is_none_or(|extension| extension.len() <= 4096)
}

// The first byte of the answers.
fn answer_byte(checks: &Checks) -> u8
    ensures { result ≡ answer_byte checks.now }
{
    u8::from(checks.handshake_finished)
        + 2 * u8::from(checks.key_is_point)
        + 4 * u8::from(checks.signature_correct)
}

// Writes a field from `at`, and gives the place behind it.
fn put_field(out: &mut [u8], at: usize, tag: u8, value: &[u8]) -> usize
    requires { (length value.now < 65536) × (at + (3 + length value.now) ≤ length out.old) }
    ensures { (result ≡ at + (3 + length value.now)) × (out.new ≡ put out.old at (field_bytes tag value.now)) }
{
    let at_length = octets::put_part(out, at, &[tag]);
    let at_value = octets::put_number::<2>(out, at_length, value.len() as u32);
    octets::put_part(out, at_value, value)
}

// Writes the field of the clock from `at`.
fn put_clock(out: &mut [u8], at: usize, clock: u64) -> usize
    requires { (clock ≤ 4294967295) × (at + 7 ≤ length out.old) }
    ensures { (result ≡ at + 7) × (out.new ≡ put out.old at (field_bytes 1 (big_endian 4 clock))) }
{
    put_field(out, at, 1, &(clock as u32).to_be_bytes())
}

// Writes the field of the extension from `at`, or nothing where none came.
fn put_extension(out: &mut [u8], at: usize, extension: Option<&[u8]>) -> usize
    requires { (length (extension_bytes (is_some extension) (bytes_in extension)) ≤ 4099) × (at + length (extension_bytes (is_some extension) (bytes_in extension)) ≤ length out.old) }
    ensures { (result ≡ at + length (extension_bytes (is_some extension.entry) (bytes_in extension.entry))) × (out.new ≡ put out.old at (extension_bytes (is_some extension.entry) (bytes_in extension.entry))) }
{
    match extension {
        Some(extension) => put_field(out, at, 5, extension),
        None => at,
    }
}

// The length of the extension's field, 0 where none came.
fn extension_size(extension: Option<&[u8]>) -> usize
    requires { length (extension_bytes (is_some extension) (bytes_in extension)) ≤ 4099 }
    ensures { result ≡ length (extension_bytes (is_some extension.entry) (bytes_in extension.entry)) }
{
    match extension {
        Some(extension) => extension.len() + 3,
        None => 0,
    }
}

// The length of the call where it can be recorded.
fn call_length(connection: &Connection<'_, Checks>) -> usize
    requires { recordable (seen connection.now) ≡ true }
    ensures { result ≡ length (call_bytes (seen connection.now)) }
{
    connection.name.len() + extension_size(connection.extension) + 53
}

// Writes the call at the start of `out`, which has room for it, and gives its length.
fn put_call(connection: &Connection<'_, Checks>, out: &mut [u8]) -> usize
    requires { (recordable (seen connection.now) ≡ true) × (length (call_bytes (seen connection.now)) ≤ length out.old) }
    ensures { (result ≡ length (call_bytes (seen connection.now))) × (out.new ≡ put out.old 0 (call_bytes (seen connection.now))) }
{
    let checks = &connection.checks;
    let answers = [answer_byte(checks), checks.breaks_correct];
    let at_name = put_clock(out, 0, connection.clock);
    let at_answers = put_field(out, at_name, 2, connection.name);
    let at_hash = put_field(out, at_answers, 3, &answers);
    let at_extension = put_field(out, at_hash, 4, connection.hash);
    let at_end = put_extension(out, at_extension, connection.extension);
    put_field(out, at_end, 6, &[])
}

// Writes one call as it is recorded at the start of `out`, and changes no byte behind it: the number of bytes, or why none is
// written.
pub fn write_call(
    connection: &Connection<'_, Checks>,
    out: &mut [u8],
) -> Result<usize, WritingError>
    ensures answer { result ≡ writing (recordable (seen connection.now)) (call_bytes (seen connection.now)) out.old }
    ensures written { out.new ≡ output (recordable (seen connection.now)) (call_bytes (seen connection.now)) out.old }
{
    if !is_recordable(connection) {
        return Err(WritingError::BadPart);
    }
    if out.len() < call_length(connection) {
        return Err(WritingError::NoSpace);
    }
    Ok(put_call(connection, out))
}
