// Host names: a name is a label, or a label, a dot and a name.
#![tactic(auto)]

pub mod folding;

ghost use Rattle.std.specs.Prelude.{◌≡◌, true, ◌+◌, ◌≤◌, ◌<◌, length, get_or, drop};
ghost use Rattle.octets.specs.Octets.{all};
ghost use Rattle.host_name.specs.Name.{letter_or_digit, is_label, between_dots, well_formed};
ghost use Rattle.host_name.specs.Scan.{name_byte, to_dot, Rest};

fn letter_or_digit(b: u8) -> bool
    ensures { result ≡ letter_or_digit b }
{
    b.is_ascii_lowercase() | b.is_ascii_digit()
}

// Whether the byte may stand in a name.
pub fn name_byte(b: u8) -> bool
    ensures { result ≡ name_byte b }
{
    letter_or_digit(b) | (b == b'-') | (b == b'.')
}

// Whether each byte may stand in a name. It reads them all, since a loop that ends early can't go by vectors.
fn only_name_bytes(name: &[u8]) -> bool
    ensures { result ≡ all name_byte name.now }
{
    name.iter().fold(true, |only, b| only & name_byte(*b))
}

// The place of the first dot from `at` on, or the end.
fn label_end(name: &[u8; 256], at: usize) -> usize
    requires { at ≤ 256 }
    ensures { (result ≤ 256) × (result ≡ at + length (to_dot (drop at name.now))) }
{
    let rest = &name[at..];
    at + rest.iter().position(|b| *b == b'.').unwrap_or(rest.len())
}

// Inside the label that starts at `at`, whose first byte is read.
#[cycle(after_dot_in_label)]
fn in_label(name: &[u8; 256], at: usize) -> bool
    requires { Rest name.now at × (at < 256) × (letter_or_digit (get_or name.now at 0) ≡ true) }
    ensures { result ≡ all is_label (between_dots (drop at name.now)) }
{
    let end = label_end(name, at + 1);
    if 63 < end - at {
        return false;
    }
    if name[end - 1] == b'-' {
        return false; // a hyphen last
    }
    if end == 256 {
        return true;
    }
    after_dot(name, end + 1)
}

// At the first byte of a label.
#[cycle(after_dot_in_label)]
fn after_dot(name: &[u8; 256], at: usize) -> bool
    requires { Rest name.now at }
    ensures { result ≡ all is_label (between_dots (drop at name.now)) }
{
    if at == 256 {
        return false; // no bytes, or a final dot
    }
    if letter_or_digit(name[at]) {
        return in_label(name, at);
    }
    false
}

// Whether the bytes as they stand are a name of at most 253 bytes. They are checked at the end of an array, a reference to
// which goes in a register, so that the calls of the two functions compile to a loop: with a slice each label would keep a
// frame.
pub fn well_formed(name: &[u8]) -> bool
    ensures { result ≡ well_formed name.now }
{
    if 253 < name.len() {
        return false;
    }
    if !only_name_bytes(name) {
        return false;
    }
    let start = 256 - name.len();
    let mut bytes = [0u8; 256];
    octets::put_part(&mut bytes, start, name);
    after_dot(&bytes, start)
}
