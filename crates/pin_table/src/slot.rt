// The number of a slot, below the count of its kind.
ghost use Rattle.std.specs.Prelude.{◌≡◌, ◌<◌, ℕ, cond, ltb, Some, None};

use std::marker::Model;

#[derive(Clone, Copy)]
pub struct Slot<const COUNT: usize>(usize);

impl<const COUNT: usize> Model for Slot<COUNT> {
    ghost Value = { ℕ };

    ghost view = { λ s. s.0 };

    ghost invariant = { λ s. s.0 < COUNT };

    ghost inverse = { λ n. record { 0 = n } };
}

impl<const COUNT: usize> Slot<COUNT> {
    pub fn at(number: usize) -> Self
        requires { number < COUNT }
        ensures { result ≡ number }
    {
        Slot(number)
    }

    pub fn of(number: usize) -> Option<Self>
        ensures { result ≡ cond (ltb number COUNT) (Some number) None }
    {
        if number < COUNT {
            return Some(Slot(number));
        }
        None
    }

    pub fn number(self) -> usize
        ensures value { result ≡ self.entry }
        ensures within { self.entry < COUNT }
    {
        self.0
    }
}
