// Standard input, read behind the bytes that are not yet played.
ghost use Rattle.std.specs.Prelude.{◌≡◌, ◌≤◌, ◌<◌, [], List, ℕ, length, drop, take, slice_range};

use std::io;
use std::io::{ErrorKind, Read};
use std::marker::Model;

const SIZE: usize = 65536;

// The bytes that are read and not yet played: a part of a buffer in which a call finds room many times.
#[derive(Drop)]
pub struct Unplayed {
    buffer: [u8; SIZE],
    from: usize,
    to: usize,
}

impl Model for Unplayed {
    ghost Value = { List ℕ };

    ghost view = { λ u. slice_range u.buffer u.from u.to };

    ghost invariant = { λ u. (u.from ≤ u.to) × (u.to ≤ 65536) };
}

impl Unplayed {
    pub fn new() -> Self
        ensures { result ≡ [] }
    {
        Unplayed {
            buffer: [0; SIZE],
            from: 0,
            to: 0,
        }
    }

    pub fn bytes(&self) -> &[u8]
        ensures { result.now ≡ self.now }
    {
        &self.buffer[self.from..self.to]
    }

    // The first n are played.
    pub fn pass(&mut self, n: usize)
        requires { n ≤ length self.old }
        ensures { self.new ≡ drop n self.old }
    {
        self.from += n;
    }

    // Moves the bytes to the front, and makes one read behind them. A read that a signal stopped gives no bytes. Whether there may be
    // more: none where the input has ended. What is read, no clause can say.
    pub fn read_more(&mut self, rt: &HostRuntime) -> io::Result<bool>
        requires { length self.old < 65536 }
        ensures within { (length self.old ≤ length self.new) × (length self.new ≤ 65536) }
        ensures front { take (length self.old) self.new ≡ self.old }
    {
        self.buffer.copy_within(self.from..self.to, 0);
        self.to -= self.from;
        self.from = 0;
        let mut input = rt.stdin();
        match input.read(&mut self.buffer[self.to..]) {
            Ok(more) => {
                self.to += more;
                Ok(0 < more)
            }
            Err(error) if error.kind() == ErrorKind::Interrupted => Ok(true),
            Err(error) => Err(error),
        }
    }
}
