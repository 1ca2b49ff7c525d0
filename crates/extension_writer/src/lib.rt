// The writers: the extension from its parts, and the bytes that a tack's signature covers.
#![tactic(auto)]

ghost use Rattle.std.specs.Prelude.{◌≡◌, ◌+◌, ◌≤◌, ◌<◌, length, eqb};
ghost use Rattle.octets.specs.Octets.{put};
ghost use Rattle.tack_extension.specs.Extension.{parts, good, bytes_of, good_lengths};
ghost use Rattle.tack_extension.specs.Answers.{writing, output};
ghost use Rattle.tack_extension.specs.Tack.{signed_bytes};

use tack_extension::allowed;
use tack_extension::answers::WritingError;

// Whether the paper allows parts of these lengths, and the activation.
fn good_parts(tack: usize, breaks: usize, activation: u8) -> bool
    ensures { result ≡ good_lengths tack breaks activation }
{
    allowed::tack_length(tack) && allowed::breaks_length(breaks) && activation <= 1
}

// Writes the extension at the start of `out`, which has room for it, and gives its length.
fn put_extension(tack: &[u8], breaks: &[u8], activation: u8, out: &mut [u8]) -> usize
    requires { (length tack.now < 256) × (length breaks.now < 65536) × (length tack.now + length breaks.now + 4 ≤ length out.old) }
    ensures { (result ≡ length (bytes_of (parts tack.now breaks.now activation))) × (out.new ≡ put out.old 0 (bytes_of (parts tack.now breaks.now activation))) }
{
    let at_tack = octets::put_part(out, 0, &[tack.len() as u8]);
    let at_length = octets::put_part(out, at_tack, tack);
    let at_breaks = octets::put_number::<2>(out, at_length, breaks.len() as u32);
    let at_activation = octets::put_part(out, at_breaks, breaks);
    octets::put_part(out, at_activation, &[activation])
}

// Writes the extension of these parts at the start of `out`, and changes no byte behind it.
pub fn write(
    tack: &[u8],
    breaks: &[u8],
    activation: u8,
    out: &mut [u8],
) -> Result<usize, WritingError>
    ensures answer { result ≡ writing (good (parts tack.now breaks.now activation)) (bytes_of (parts tack.now breaks.now activation)) out.old }
    ensures written { out.new ≡ output (good (parts tack.now breaks.now activation)) (bytes_of (parts tack.now breaks.now activation)) out.old }
{
    let t = tack.len();
    let b = breaks.len();
    if !good_parts(t, b, activation) {
        return Err(WritingError::BadPart);
    }
    if out.len() < t + b + 4 {
        return Err(WritingError::NoSpace);
    }
    Ok(put_extension(tack, breaks, activation, out))
}

// Writes the 110 bytes that the tack's signature covers at the start of `out`, and changes no byte behind them.
pub fn write_signed_bytes(tack: &[u8], out: &mut [u8]) -> Result<usize, WritingError>
    ensures answer { result ≡ writing (eqb (length tack.now) 166) (signed_bytes tack.now) out.old }
    ensures written { out.new ≡ output (eqb (length tack.now) 166) (signed_bytes tack.now) out.old }
{
    if tack.len() != 166 {
        return Err(WritingError::BadPart);
    }
    if out.len() < 110 {
        return Err(WritingError::NoSpace);
    }
    let at = octets::put_part(out, 0, b"tack_sig");
    Ok(octets::put_part(out, at, &tack[0..102]))
}
