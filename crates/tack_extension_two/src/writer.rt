// The writer: the extension from one part that holds one or two tacks, and the flags.
ghost use Rattle.std.specs.Prelude.{◌≡◌, ◌+◌, ◌≤◌, ◌<◌, length};
ghost use Rattle.octets.specs.Octets.{put};
ghost use Rattle.tack_extension.specs.Answers.{writing, output};
ghost use Rattle.tack_extension_two.specs.ExtensionTwo.{parts_in, good_two, bytes_of_two};

use crate::allowed;
use tack_extension::answers::WritingError;

// Writes the extension at the start of `out`, which has room for it, and gives its length.
fn put_extension(tacks: &[u8], flags: u8, out: &mut [u8]) -> usize
    requires { (length tacks.now < 65536) × (length tacks.now + 3 ≤ length out.old) }
    ensures { (result ≡ length (bytes_of_two (parts_in tacks.now flags))) × (out.new ≡ put out.old 0 (bytes_of_two (parts_in tacks.now flags))) }
{
    let at_tacks = octets::put_number::<2>(out, 0, tacks.len() as u32);
    let at_flags = octets::put_part(out, at_tacks, tacks);
    octets::put_part(out, at_flags, &[flags])
}

// Writes the extension of these tacks and flags at the start of `out`, and changes no byte behind it.
pub fn write(tacks: &[u8], flags: u8, out: &mut [u8]) -> Result<usize, WritingError>
    ensures answer { result ≡ writing (good_two (parts_in tacks.now flags)) (bytes_of_two (parts_in tacks.now flags)) out.old }
    ensures written { out.new ≡ output (good_two (parts_in tacks.now flags)) (bytes_of_two (parts_in tacks.now flags)) out.old }
{
    let n = tacks.len();
    if !allowed::tacks_length(n) || !allowed::flags_allowed(n, flags) {
        return Err(WritingError::BadPart);
    }
    if out.len() < n + 3 {
        return Err(WritingError::NoSpace);
    }
    Ok(put_extension(tacks, flags, out))
}
