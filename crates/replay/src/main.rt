// Replays a night: recorded calls of any number from standard input, the report to standard output as it goes. With the argument
// `tally` the tally of the numbers goes to standard error at the end.
#![tactic(auto)]

mod input;
mod turns;

use std::env::{Env, FillError};
use std::io;
use tally::Tally;

#[derive(Clone, Copy, Debug, PartialEq, Eq)]
enum Asked {
    Report,
    Tally,
    Other,
}

fn wish(rt: &HostRuntime) -> Asked {
    let mut word = [0u8; 8];
    let first = rt.arg(1, &mut word);
    let is_tally = word.starts_with(b"tally");
    let mut next = [0u8; 8];
    let second = rt.arg(2, &mut next);
    match (first, second) {
        (Err(FillError::NotPresent), _) => Asked::Report,
        (Ok(5), Err(FillError::NotPresent)) if is_tally => Asked::Tally,
        _ => Asked::Other,
    }
}

// A line for each number that was answered: the number, and how often.
fn show_tally(rt: &HostRuntime, tally: &Tally) -> io::Result<()> {
    for number in 0..32u8 {
        let times = tally.times(number);
        if 0 < times {
            eprintln!(rt; "{number} {times}")?;
        }
    }
    Ok(())
}

fn main(rt: HostRuntime) -> io::Result<()> {
    match wish(&rt) {
        Asked::Report => {
            turns::replay(&rt);
            Ok(())
        }
        Asked::Tally => {
            let tally = turns::replay(&rt);
            show_tally(&rt, &tally)
        }
        Asked::Other => {
            eprintln!(rt;
                "usage: replay [tally] < NIGHT\nreads a night of recorded calls and writes its report; `tally` adds the numbers' counts on standard error"
            )
        }
    }
}
