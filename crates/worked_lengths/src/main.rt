// The worked lengths of document 01: extensions of 4, 132, 170 and 1,194 bytes, names at their limits. A line each, the answer
// behind it; the stored output is the paper's.
#![tactic(auto)]

use std::io;
use tack_extension::answers::WritingError;
use tack_extension::reader;

fn say(rt: &HostRuntime, words: &str, n: u64) -> io::Result<()> {
    println!(rt; "{words}: {n}")
}

// The number of an answer, or the bytes that it wrote.
fn outcome(w: Result<usize, WritingError>) -> u64 {
    match w {
        Ok(bytes) => bytes as u64,
        Err(WritingError::BadPart) => 25,
        Err(WritingError::NoSpace) => 26,
    }
}

// What the writer answers for parts and an output of these lengths.
fn written(tack_length: usize, breaks_length: usize, space: usize) -> u64 {
    let tack = [17u8; 256];
    let breaks = [34u8; 2048];
    let mut out = [0u8; 2048];
    if 256 < tack_length || 2048 < breaks_length || 2048 < space {
        return 0;
    }
    outcome(extension_writer::write(
        &tack[..tack_length],
        &breaks[..breaks_length],
        1,
        &mut out[..space],
    ))
}

// What the reader answers for the longest extension, written and then cut or lengthened to this length.
fn read(length: usize) -> u64 {
    let tack = [17u8; 166];
    let breaks = [34u8; 1024];
    let mut out = [0u8; 1200];
    if 1200 < length {
        return 0;
    }
    let _ = extension_writer::write(&tack, &breaks, 1, &mut out);
    match reader::read(&out[..length]) {
        Some(_) => 9,
        None => 16,
    }
}

fn signed(tack_length: usize) -> u64 {
    let tack = [17u8; 256];
    let mut out = [0u8; 110];
    if 256 < tack_length {
        return 0;
    }
    outcome(extension_writer::write_signed_bytes(&tack[..tack_length], &mut out))
}

fn extensions(rt: &HostRuntime) -> io::Result<()> {
    say(rt, "neither tack nor break signature", written(0, 0, 2048))?;
    say(rt, "a tack alone", written(166, 0, 2048))?;
    say(rt, "one break signature alone", written(0, 128, 2048))?;
    say(
        rt,
        "a tack and eight break signatures",
        written(166, 1024, 2048),
    )?;
    say(rt, "the same into 1,194 bytes", written(166, 1024, 1194))?;
    say(rt, "the same into 1,193 bytes", written(166, 1024, 1193))?;
    say(rt, "nine break signatures", written(166, 1152, 2048))?;
    say(rt, "a tack of 165 bytes", written(165, 0, 2048))?;
    say(rt, "the longest extension read", read(1194))?;
    say(rt, "one byte less", read(1193))?;
    say(rt, "one byte more", read(1195))?;
    say(rt, "the bytes to be signed", signed(166))?;
    say(rt, "the same for 167 bytes", signed(167))
}

// One label of this many bytes.
fn label(length: usize) -> u64 {
    let bytes = [97u8; 64];
    if 64 < length {
        return 0;
    }
    u64::from(host_name::well_formed(&bytes[..length]))
}

// A name of this many bytes, in labels of at most 63.
fn name(length: usize) -> u64 {
    let mut bytes = [97u8; 254];
    bytes[62] = 46;
    bytes[125] = 46;
    bytes[188] = 46;
    bytes[251] = 46;
    if 254 < length {
        return 0;
    }
    u64::from(host_name::well_formed(&bytes[..length]))
}

fn main(rt: HostRuntime) -> io::Result<()> {
    extensions(&rt)?;
    say(&rt, "a label of 63 bytes", label(63))?;
    say(&rt, "a label of 64 bytes", label(64))?;
    say(&rt, "a name of 251 bytes", name(251))?;
    say(&rt, "a name of 253 bytes", name(253))?;
    say(&rt, "a name of 254 bytes", name(254))
}
