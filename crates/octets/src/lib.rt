// Bytes at a place of a slice: read, written and compared. Each function that writes gives the place behind what it wrote.
#![tactic(auto)]

ghost use Rattle.std.specs.Prelude.{◌≡◌, ◌+◌, ◌≤◌, ◌<◌, length, replicate, max};
ghost use Rattle.std.specs.List.{fold};
ghost use Rattle.octets.specs.Octets.{part, put, big_endian, number, all_zero, same};
ghost use Rattle.octets.specs.Words.{word};

// The big-endian number in the WIDTH bytes from `at`.
pub fn number_at<const WIDTH: usize>(s: &[u8], at: usize) -> u32
    requires { (WIDTH ≤ 4) × (at + WIDTH ≤ length s.now) }
    ensures { result ≡ number (part s.now at WIDTH) }
{
    let mut bytes = [0; 4];
    bytes[4 - WIDTH..].copy_from_slice(&s[at..at + WIDTH]);
    u32::from_be_bytes(bytes)
}

// Writes the lowest WIDTH bytes of v from `at`.
pub fn put_number<const WIDTH: usize>(s: &mut [u8], at: usize, v: u32) -> usize
    requires { (WIDTH ≤ 4) × (at + WIDTH ≤ length s.old) }
    ensures { (result ≡ at + WIDTH) × (s.new ≡ put s.old at (big_endian WIDTH v)) }
{
    let bytes = v.to_be_bytes();
    put_part(s, at, &bytes[4 - WIDTH..])
}

// Writes n zeros from `at`.
pub fn put_zeros(s: &mut [u8], at: usize, n: usize) -> usize
    requires { at + n ≤ length s.old }
    ensures { (result ≡ at + n) × (s.new ≡ put s.old at (replicate n 0)) }
{
    s[at..at + n].fill(0);
    at + n
}

// Copies p to the place `at`, byte by byte: the library's copy of a slice would have a library for C ask for `memmove` from outside.
pub fn put_part(s: &mut [u8], at: usize, p: &[u8]) -> usize
    requires { at + length p.now ≤ length s.old }
    ensures { (result ≡ at + length p.now) × (s.new ≡ put s.old at p.now) }
{
    for i in 0..p.len() {
        s[at + i] = p[i];
    }
    at + p.len()
}

// The word of the eight bytes from `at`: the little-endian number, which the machine reads in one load.
pub fn word_at(s: &[u8], at: usize) -> u64
    requires { at + 8 ≤ length s.now }
    ensures { result ≡ word (part s.now at 8) }
{
    u64::from_le_bytes(*s[at..at + 8].first_chunk().unwrap())
}

// Whether the bytes from `at` are those of p: by words of eight bytes from the front, where names differ, up to the first word that
// differs. The last word may overlap the one before it. Fewer than eight bytes, and 96 and more, go by the library, from the front too and
// faster there.
#[inline(always)]
#[tactic(auto, using(crate::proofs::Equal::compared_at))]
pub fn same_at(s: &[u8], at: usize, p: &[u8]) -> bool
    requires { at + length p.now ≤ length s.now }
    ensures { result ≡ same (part s.now at (length p.now)) p.now }
{
    let n = p.len();
    if n < 8 || 96 <= n {
        return &s[at..at + n] == p;
    }
    let last = n - 8;
    for i in 0..(n - 1) / 8 {
        if word_at(s, at + 8 * i) != word_at(p, 8 * i) {
            return false;
        }
    }
    word_at(s, at + last) == word_at(p, last)
}

// The same of 64 bytes, as a key has: from the last word down to the first, since keys may begin alike.
pub fn same_64_at(s: &[u8], at: usize, p: &[u8; 64]) -> bool
    requires { at + 64 ≤ length s.now }
    ensures { result ≡ same (part s.now at 64) p.now }
{
    for i in (0..8).rev() {
        if word_at(s, at + 8 * i) != word_at(p, 8 * i) {
            return false;
        }
    }
    true
}

// The greatest of the bytes, or 0. It reads them all, since a loop that ends early can't go by vectors.
fn greatest(s: &[u8]) -> u8
    ensures { result ≡ fold max 0 s.now }
{
    s.iter().fold(0, |most, b| most.max(*b))
}

// Whether the n bytes from `at` are zero.
pub fn zeros_at(s: &[u8], at: usize, n: usize) -> bool
    requires { at + n ≤ length s.now }
    ensures { result ≡ all_zero (part s.now at n) }
{
    greatest(&s[at..at + n]) == 0
}
