// A name padded with zeros to 256 bytes, as a pin table keeps it. Up to 63 bytes no label is too long, so each byte and its
// neighbour say whether the name is well-formed: that goes by vectors, over a fixed number of bytes. Longer names go from dot to
// dot.
#![tactic(auto)]

ghost use Rattle.std.specs.Prelude.{◌≡◌, ◌&&◌, ◌+◌, ◌-◌, ◌<◌, get_or};
ghost use Rattle.octets.specs.Octets.{part, all_zero};
ghost use Rattle.octets.specs.Search.{every};
ghost use Rattle.host_name.specs.Name.{well_formed};
ghost use Rattle.padded_name.specs.Neighbours.{neighbours, Short};

// Whether y may stand behind x. A dot is above a hyphen and zero and below every other byte of a name, so that one comparison
// sees a dot beside any of the three.
fn neighbours(x: u8, y: u8) -> bool
    ensures { result ≡ neighbours x y }
{
    (host_name::name_byte(x) | (x == 0)) & (x.max(y) != b'.') & ((x != 0) | (y == 0))
}

// Whether behind each of the first M bytes its neighbour may stand. It reads them all, since a loop that ends early can't go by
// vectors.
fn all_neighbours<const M: usize>(padded: &[u8; 256]) -> bool
    requires { M < 256 }
    ensures { result ≡ every (λ i. neighbours (get_or padded.now i 0) (get_or padded.now (i + 1) 0)) M }
{
    (0..M).fold(true, |all, i| all & neighbours(padded[i], padded[i + 1]))
}

// A name of fewer than M bytes, and the zeros behind it.
fn short_formed<const M: usize>(padded: &[u8; 256], n: usize) -> bool
    requires { Short padded.now n M }
    ensures { result ≡ (well_formed (part padded.now 0 n) && all_zero (part padded.now n (256 - n))) }
{
    if padded[0] < b'0' {
        return false; // a dot or a hyphen first
    }
    if padded[n - 1] < b'0' {
        return false; // a dot or a hyphen last
    }
    if padded[n] != 0 {
        return false;
    }
    if !all_neighbours::<M>(padded) {
        return false;
    }
    octets::zeros_at(padded, M, 256 - M)
}

// Whether the first n bytes are a name, and only zeros stand behind it.
pub fn well_formed(padded: &[u8; 256], n: usize) -> bool
    requires { n < 256 }
    ensures { result ≡ (well_formed (part padded.now 0 n) && all_zero (part padded.now n (256 - n))) }
{
    if n == 0 {
        return false;
    }
    if n < 32 {
        return short_formed::<32>(padded, n);
    }
    if n < 64 {
        return short_formed::<64>(padded, n);
    }
    if !host_name::well_formed(&padded[0..n]) {
        return false;
    }
    octets::zeros_at(padded, n, 256 - n)
}
