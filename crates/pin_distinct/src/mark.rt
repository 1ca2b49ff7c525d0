// A mark: a number below 8,192.
ghost use Rattle.std.specs.Prelude.{◌≡◌, ◌<◌, ℕ};

use std::marker::Model;

pub const MARKS: usize = 8192;

#[derive(Clone, Copy)]
pub struct Mark {
    number: usize,
}

impl Model for Mark {
    ghost Value = { ℕ };

    ghost view = { λ m. m.number };

    ghost invariant = { λ m. m.number < 8192 };

    ghost inverse = { λ n. record { number = n } };
}

impl Mark {
    pub fn new(number: usize) -> Mark
        requires { number < 8192 }
        ensures { result ≡ number }
    {
        Mark { number }
    }

    pub fn number(self) -> usize
        ensures value { result ≡ self }
        ensures within { self < 8192 }
    {
        self.number
    }
}
