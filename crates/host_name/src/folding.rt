// Names in capitals: A-Z is taken as a-z.
ghost use Rattle.std.specs.Prelude.{◌≡◌, take};
ghost use Rattle.host_name.specs.Name.{well_formed};
ghost use Rattle.host_name.specs.Folding.{folded_name};

use std::marker::Model;

// A name in small letters. Of a longer name the first 254 bytes are enough: with them it is still too long.
#[derive(Drop)]
pub struct Folded {
    bytes: [u8; 254],
    length: usize,
}

impl Model for Folded {
    ghost use Rattle.std.specs.Prelude.{ℕ, ◌≤◌, List, take};

    ghost Value = { List ℕ };

    ghost view = { λ f. take f.length f.bytes };

    ghost invariant = { λ f. f.length ≤ 254 };
}

impl Folded {
    pub fn of(name: &[u8]) -> Folded
        ensures { result ≡ take 254 (folded_name name.now) }
    {
        let length = name.len().min(254);
        let mut folded = Folded {
            bytes: [0; 254],
            length,
        };
        for (i, byte) in name[..length].iter().enumerate() {
            folded.bytes[i] = byte.to_ascii_lowercase();
        }
        folded
    }

    pub fn as_slice(&self) -> &[u8]
        ensures { result.now ≡ self.now }
    {
        &self.bytes[..self.length]
    }
}

// Whether the folded name is well-formed.
pub fn well_formed(name: &[u8]) -> bool
    ensures { result ≡ well_formed (folded_name name.now) }
{
    let folded = Folded::of(name);
    crate::well_formed(folded.as_slice())
}
