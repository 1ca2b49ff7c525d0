// The reader. Each step gives the part that it read and the bytes that follow it, or nothing; the first that gives nothing ends the
// reading.
ghost use Rattle.std.specs.Prelude.{◌≡◌, [], None};
ghost use Rattle.tack_extension_two.specs.ExtensionTwo.{parse_two, parts_or_none};
ghost use Rattle.tack_extension_two.specs.AnswersTwo.{parts_read_two};

use crate::allowed;
use tack_extension::fields::Tack;
use tack_extension::reader;

// What a well-formed extension of edition two holds; or neither tack.
#[derive(Clone, Copy)]
pub struct Tacks<'a> {
    pub first: Option<&'a Tack>,
    pub second: Option<&'a Tack>,
    pub flags: u8,
}

impl<'a> Tacks<'a> {
    pub fn none() -> Tacks<'a>
        ensures first { result.first ≡ None }
        ensures second { result.second ≡ None }
        ensures flags { result.flags ≡ 0 }
    {
        Tacks {
            first: None,
            second: None,
            flags: 0,
        }
    }
}

// What the bytes hold, if they are a well-formed extension of edition two.
pub fn read(s: &[u8]) -> Option<Tacks<'_>>
    ensures { parts_read_two result ≡ parse_two s.now }
{
    let Some((tacks, rest)) = reader::read_part(s) else {
        return None;
    };
    if !allowed::tacks_length(tacks.len()) {
        return None;
    }
    let Some([flags]) = rest.as_array::<1>() else {
        return None; // none, or bytes behind it
    };
    let flags = *flags;
    if !allowed::flags_allowed(tacks.len(), flags) {
        return None;
    }
    Some(Tacks {
        first: tacks.first_chunk(),
        second: tacks[166..].first_chunk(),
        flags,
    })
}

// The part of the bytes that holds the first tack: empty where the reading is refused.
pub fn first_tack(s: &[u8]) -> &[u8]
    ensures { result.now ≡ (parts_or_none (parse_two s.now)).first }
{
    let Some(tacks) = read(s) else {
        return &[];
    };
    match tacks.first {
        Some(tack) => tack,
        None => &[],
    }
}

// The part of the bytes that holds the second tack: empty where there is none, or where the reading is refused.
pub fn second_tack(s: &[u8]) -> &[u8]
    ensures { result.now ≡ (parts_or_none (parse_two s.now)).second }
{
    let Some(tacks) = read(s) else {
        return &[];
    };
    match tacks.second {
        Some(tack) => tack,
        None => &[],
    }
}
