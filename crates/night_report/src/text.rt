// The report as text: numbers, and the lines made of them. Each function that writes gives the place behind what it wrote.
ghost use Rattle.std.specs.Prelude.{◌≡◌, ◌++◌, ◌+◌, ◌≤◌, length};
ghost use Rattle.octets.specs.Octets.{put};
ghost use Rattle.tack_extension.specs.Answers.{alert_of};
ghost use Rattle.night_report.specs.Report.{decimal, line_of, total_line, bad_line};

use itoa::Buffer;

// Writes n in decimal from `at`.
#[tactic(auto, using(crate::proofs::Decimal::written_so))]
pub fn put_decimal(out: &mut [u8], at: usize, n: u64) -> usize
    requires { at + length (decimal n) ≤ length out.old }
    ensures { (result ≡ at + length (decimal n)) × (out.new ≡ put out.old at (decimal n)) }
{
    let mut digits = Buffer::new();
    octets::put_part(out, at, digits.format(n).as_bytes())
}

// Writes n from `at`, and `behind` behind it.
fn put_number(out: &mut [u8], at: usize, n: u64, behind: &[u8]) -> usize
    requires { at + length (decimal n ++ behind.now) ≤ length out.old }
    ensures { (result ≡ at + length (decimal n ++ behind.now)) × (out.new ≡ put out.old at (decimal n ++ behind.now)) }
{
    let end = put_decimal(out, at, n);
    octets::put_part(out, end, behind)
}

// Writes a call's line from `at`: its index, the answer's number, the number's alert, and 'no room' as 0 or 1.
pub fn put_line(out: &mut [u8], at: usize, index: u64, number: u8, no_room: bool) -> usize
    requires { at + 31 ≤ length out.old }
    ensures { (result ≡ at + length (line_of index number (alert_of number) no_room)) × (out.new ≡ put out.old at (line_of index number (alert_of number) no_room)) }
{
    let answer = u64::from(number);
    let alert = u64::from(pin_answers::alert_of(number));
    let full = u64::from(no_room);
    let at_number = put_number(out, at, index, b" ");
    let at_alert = put_number(out, at_number, answer, b" ");
    let at_full = put_number(out, at_alert, alert, b" ");
    put_number(out, at_full, full, b"\n")
}

// Writes the line `total N` from `at`.
pub fn put_total(out: &mut [u8], at: usize, n: u64) -> usize
    requires { at + 27 ≤ length out.old }
    ensures { (result ≡ at + length (total_line n)) × (out.new ≡ put out.old at (total_line n)) }
{
    let at_number = octets::put_part(out, at, b"total ");
    put_number(out, at_number, n, b"\n")
}

// Writes the line `bad` from `at`.
pub fn put_bad(out: &mut [u8], at: usize) -> usize
    requires { at + 4 ≤ length out.old }
    ensures { (result ≡ at + length bad_line) × (out.new ≡ put out.old at bad_line) }
{
    octets::put_part(out, at, b"bad\n")
}
