// One turn of a replay: the call in front of the bytes is read and judged, and its line is written.
#![tactic(auto)]

ghost use Rattle.std.specs.Prelude.{◌≡◌, true, ◌+◌, ◌≤◌, length};
ghost use Rattle.pin_model.specs.Sound.{sound};
ghost use Rattle.recorded_call.specs.RecordedCall.{recorded};
ghost use Rattle.night_play.specs.Turns.{turn_by, area_by, out_by, Within, counts_by};

use night_report::text;
use recorded_call::front::CallError;
use recorded_call::reader;
use tally::Tally;

// What a turn did: the bytes that its call took, where its line ends, and its number.
#[derive(Clone, Copy, Debug, PartialEq, Eq)]
pub struct Line {
    pub taken: usize,
    pub end: usize,
    pub number: u8,
}

// Plays the call in front of the night's bytes, the one of this index: its line goes to `out` from `at`. The area is known to be
// sound, as every area of a run from an empty table is, so no turn tests the whole of it.
pub fn play_call(
    area: &mut [u8],
    night: &[u8],
    index: u64,
    out: &mut [u8],
    at: usize,
) -> Result<Line, CallError>
    requires { (at + 31 ≤ length out.old) × (sound area.old ≡ true) }
    ensures turn { result ≡ turn_by index area.old night.now at (recorded night.now) }
    ensures area { area.new ≡ area_by area.old (recorded night.now) }
    ensures line { out.new ≡ out_by index area.old out.old at (recorded night.now) }
    ensures sound { sound area.new ≡ true }
    ensures within { Within night.now at result }
{
    let call = reader::take_call(night)?;
    let judgement = pin_judge::judge_sound_area(area, &call.value);
    let number = pin_answers::number_of(judgement);
    let no_room = judgement.is_ok_and(|judged| judged.no_room);
    let end = text::put_line(out, at, index, number, no_room);
    Ok(Line {
        taken: night.len() - call.rest.len(),
        end,
        number,
    })
}

// Plays the call in front, and counts it: the tally is lent to the call that judges, and is changed in place.
pub fn play_counted(
    tally: &mut Tally,
    area: &mut [u8],
    night: &[u8],
    index: u64,
    out: &mut [u8],
    at: usize,
) -> Result<Line, CallError>
    requires { (at + 31 ≤ length out.old) × (sound area.old ≡ true) }
    ensures turn { result ≡ turn_by index area.old night.now at (recorded night.now) }
    ensures area { area.new ≡ area_by area.old (recorded night.now) }
    ensures line { out.new ≡ out_by index area.old out.old at (recorded night.now) }
    ensures sound { sound area.new ≡ true }
    ensures within { Within night.now at result }
    ensures tally { tally.new.counts ≡ counts_by area.old tally.old.counts (recorded night.now) }
{
    let line = play_call(area, night, index, out, at)?;
    tally.count(line.number);
    Ok(line)
}
