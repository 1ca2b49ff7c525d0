// The extension read and written.
ghost use Rattle.std.specs.Prelude.{◌≡◌, length, eqb};
ghost use Rattle.octets.specs.Octets.{part};
ghost use Rattle.tack_extension.specs.Extension.{parse, parts, good, bytes_of, tack_part, breaks_part};
ghost use Rattle.tack_extension.specs.Tack.{signed_bytes};
ghost use Rattle.tack_extension.specs.Answers.{writing, output};
ghost use Rattle.tack.specs.Extension.{reading_answer, span_of, breaks_start, writing_answer};

use tack_extension::answers::WritingError;
use tack_extension::reader;

// tack_reading
#[repr(C)]
#[derive(Clone, Copy)]
pub struct ReadingAnswer {
    pub number: u8,
    pub alert: u8,
    pub activation: u8,
}

// tack_span
#[repr(C)]
#[derive(Clone, Copy)]
pub struct Span {
    pub start: usize,
    pub length: usize,
}

// tack_writing
#[repr(C)]
#[derive(Clone, Copy)]
pub struct WritingAnswer {
    pub number: u8,
    pub alert: u8,
    pub written: usize,
}

#[unsafe(no_mangle)]
pub extern "C" fn tack_extension_read(bytes: &[u8]) -> ReadingAnswer
    ensures { result ≡ reading_answer (parse bytes.now) }
{
    match reader::read(bytes) {
        Some(extension) => ReadingAnswer {
            number: 9,
            alert: 0,
            activation: extension.activation,
        },
        None => ReadingAnswer {
            number: 16,
            alert: 50,
            activation: 0,
        },
    }
}

// A span that is empty says 0 and 0.
pub(crate) fn span_at(start: usize, length: usize) -> Span
    ensures { result ≡ span_of start length }
{
    if length == 0 {
        return Span {
            start: 0,
            length: 0,
        };
    }
    Span { start, length }
}

#[unsafe(no_mangle)]
pub extern "C" fn tack_extension_tack(bytes: &[u8]) -> Span
    ensures where_it_is { result ≡ span_of 1 (length (tack_part bytes.now)) }
    ensures what_it_holds { part bytes.now result.start result.length ≡ tack_part bytes.now }
{
    let tack = reader::tack_part(bytes);
    span_at(1, tack.len())
}

#[unsafe(no_mangle)]
pub extern "C" fn tack_extension_breaks(bytes: &[u8]) -> Span
    ensures where_it_is { result ≡ span_of (breaks_start bytes.now) (length (breaks_part bytes.now)) }
    ensures what_it_holds { part bytes.now result.start result.length ≡ breaks_part bytes.now }
{
    let tack = reader::tack_part(bytes);
    let breaks = reader::breaks_part(bytes);
    span_at(tack.len() + 3, breaks.len())
}

// What a writer answers, in numbers.
pub(crate) fn writing_answer(w: Result<usize, WritingError>) -> WritingAnswer
    ensures { result ≡ writing_answer w }
{
    match w {
        Ok(written) => WritingAnswer {
            number: 9,
            alert: 0,
            written,
        },
        Err(error) => WritingAnswer {
            number: match error {
                WritingError::BadPart => 25,
                WritingError::NoSpace => 26,
            },
            alert: 0,
            written: 0,
        },
    }
}

#[unsafe(no_mangle)]
pub extern "C" fn tack_extension_write(
    tack: &[u8],
    breaks: &[u8],
    activation: u8,
    out: &mut [u8],
) -> WritingAnswer
    ensures answer { result ≡ writing_answer (writing (good (parts tack.now breaks.now activation)) (bytes_of (parts tack.now breaks.now activation)) out.old) }
    ensures written { out.new ≡ output (good (parts tack.now breaks.now activation)) (bytes_of (parts tack.now breaks.now activation)) out.old }
{
    writing_answer(extension_writer::write(tack, breaks, activation, out))
}

#[unsafe(no_mangle)]
pub extern "C" fn tack_signed_bytes(tack: &[u8], out: &mut [u8]) -> WritingAnswer
    ensures answer { result ≡ writing_answer (writing (eqb (length tack.now) 166) (signed_bytes tack.now) out.old) }
    ensures written { out.new ≡ output (eqb (length tack.now) 166) (signed_bytes tack.now) out.old }
{
    writing_answer(extension_writer::write_signed_bytes(tack, out))
}
