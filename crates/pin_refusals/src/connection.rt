// 14, 15 and 17.
ghost use Rattle.std.specs.Prelude.{◌≡◌, ◌≤◌, length};
ghost use Rattle.tack_extension.specs.Tack.{break_signatures};
ghost use Rattle.pin_model.specs.Layout.{decode};
ghost use Rattle.pin_model.specs.Refusals.{first, handshake_tests, all_correct, breaks_test};
ghost use Rattle.pin_answers.specs.Numbers.{checked_number};
ghost use Rattle.pin_records.specs.Holds.{Stored};

use pin_answers::Refusal;
use pin_records::read;
use pin_table::minutes::Minutes;

// 14 and 15, in either edition.
pub fn check_handshake(area: &[u8], clock: Minutes, finished: bool) -> Result<(), Refusal>
    requires { Stored area.now }
    ensures { checked_number result ≡ first (handshake_tests clock.0 finished (decode area.now)) }
{
    if clock < read::latest(area) {
        return Err(Refusal::ClockBeforeLatest);
    }
    if !finished {
        return Err(Refusal::HandshakeUnfinished);
    }
    Ok(())
}

// Whether bit i says of every break signature i that it is correct; further bits are ignored.
fn breaks_correct(breaks: &[u8], bits: u8) -> bool
    requires { length breaks.now ≤ 1024 }
    ensures { result ≡ all_correct (break_signatures breaks.now) bits }
{
    breaks.len() / 128 <= bits.trailing_ones() as usize
}

// 17.
pub fn check_breaks(breaks: &[u8], bits: u8) -> Result<(), Refusal>
    requires { length breaks.now ≤ 1024 }
    ensures { checked_number result ≡ first (breaks_test (break_signatures breaks.now) bits) }
{
    if !breaks_correct(breaks, bits) {
        return Err(Refusal::BreakIncorrect);
    }
    Ok(())
}
