// The turns of a replay: each plays the call in front of the bytes read so far, or reads more.
ghost use Rattle.std.specs.Prelude.{◌≡◌, ◌+◌, ◌≤◌, ◌<◌, length};
ghost use Rattle.replay.specs.Progress.{InOrder, Reached, Tallied};

use crate::input::Unplayed;
use night_report::text;
use recorded_call::front::CallError;
use std::io;
use std::io::Write;
use tally::Tally;

const SIZE: usize = 65536;

// The text has room for another line up to here: its size less the longest line.
const LAST_LINE_AT: usize = SIZE - 31;

// The stream that failed, and how.
#[derive(Drop)]
pub enum Failure {
    Input(io::Error),
    Output(io::Error),
}

// How far a replay has come: the table, the bytes that are read and not yet played, the lines that are not yet written and where they
// end, the next call's index, and the tally.
#[derive(Drop)]
pub struct Progress {
    area: [u8; 39432],
    unplayed: Unplayed,
    lines: [u8; SIZE],
    end: usize,
    index: u64,
    tally: Tally,
}

impl Progress {
    // From the empty table of edition one.
    fn new() -> Self
        ensures { InOrder result × (result.index ≡ 0) }
    {
        Progress {
            area: [0; 39432],
            unplayed: Unplayed::new(),
            lines: [0; SIZE],
            end: 0,
            index: 0,
            tally: Tally::new(),
        }
    }

    // Writes the lines that are not yet written.
    fn write(&mut self, rt: &HostRuntime) -> Result<(), Failure>
        requires { (self.old.end ≤ 65536) × Reached self.old.area self.old.index self.old.tally.counts }
        ensures { InOrder self.new × (self.new.index ≡ self.old.index) × (self.new.unplayed ≡ self.old.unplayed) × (self.new.area ≡ self.old.area) × (self.new.tally ≡ self.old.tally) }
    {
        let end = self.end;
        self.end = 0;
        let mut output = rt.stdout();
        output
            .write_all(&self.lines[..end])
            .map_err(Failure::Output)
    }

    // Writes what is left of the report, and its last line: `total` behind a whole night, `bad` behind any other.
    fn close(&mut self, rt: &HostRuntime, whole: bool) -> Result<(), Failure>
        requires { InOrder self.old }
        ensures { InOrder self.new × (self.new.index ≡ self.old.index) × (self.new.area ≡ self.old.area) × (self.new.tally ≡ self.old.tally) }
    {
        let index = self.index;
        self.end = if whole {
            text::put_total(&mut self.lines, self.end, index)
        } else {
            text::put_bad(&mut self.lines, self.end)
        };
        self.write(rt)
    }

    // Where the call in front is cut off: what is played is written before the program waits for more. Whether there may be more to
    // play.
    fn read_more(&mut self, rt: &HostRuntime) -> Result<bool, Failure>
        requires { InOrder self.old × (length self.old.unplayed < 4452) }
        ensures { InOrder self.new × (self.new.index ≡ self.old.index) × (self.new.area ≡ self.old.area) × (self.new.tally ≡ self.old.tally) }
    {
        self.write(rt)?;
        if self.unplayed.read_more(rt).map_err(Failure::Input)? {
            return Ok(true);
        }
        let whole = self.unplayed.bytes().is_empty();
        self.close(rt, whole)?;
        Ok(false)
    }

    // One turn: whether there may be more to play.
    fn turn(&mut self, rt: &HostRuntime) -> Result<bool, Failure>
        requires { InOrder self.old × (self.old.index < 18446744073709551615) }
        ensures { InOrder self.new × (self.new.index ≤ self.old.index + 1) }
    {
        let played = night_play::play_counted(
            &mut self.tally,
            &mut self.area,
            self.unplayed.bytes(),
            self.index,
            &mut self.lines,
            self.end,
        );
        match played {
            Ok(line) => {
                self.unplayed.pass(line.taken);
                self.end = line.end;
                self.index += 1;
                if LAST_LINE_AT < line.end {
                    self.write(rt)?;
                }
                Ok(true)
            }
            Err(CallError::CutOff) => self.read_more(rt),
            Err(CallError::Bad) => {
                self.close(rt, false)?;
                Ok(false)
            }
        }
    }

    // Turn after turn. A night of so many calls that they could not be counted does not end in any lifetime.
    fn run(&mut self, rt: &HostRuntime) -> Result<(), Failure>
        requires { InOrder self.old × (self.old.index ≡ 0) }
        ensures { InOrder self.new }
    {
        for _ in 0..u64::MAX {
            if !self.turn(rt)? {
                break;
            }
        }
        Ok(())
    }
}

// Says on standard error what failed, and how.
fn show(rt: &HostRuntime, failure: Failure) {
    let _ = match failure {
        Failure::Input(error) => eprintln!(rt; "replay: standard input: {error}"),
        Failure::Output(error) => eprintln!(rt; "replay: standard output: {error}"),
    };
}

// A whole night. What fails ends it, with a message.
pub fn replay(rt: &HostRuntime) -> Tally
    ensures { Tallied result.counts }
{
    let mut progress = Progress::new();
    if let Err(failure) = progress.run(rt) {
        show(rt, failure);
    }
    progress.tally
}
