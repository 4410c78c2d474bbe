//! A bound on the number of reads from a reader.
ghost use Rattle.std.specs.Prelude.{◌≡◌, ◌+◌, ◌<◌, nat_lt};
ghost use Rattle.std.specs.Io.{ReadsAtMost};
ghost use Rattle.std.specs.Io.KnownBytes.{ReadConsumes};

use std::io::{Read, Result};

/// The turns that are left: each read takes one, also an interrupted one.
#[derive(Drop)]
pub struct Turns {
    left: u32,
}

impl Turns {
    /// This many turns.
    pub fn new(count: u32) -> Self
        ensures { result.left ≡ count }
    {
        Turns { left: count }
    }

    /// Whether a turn is left.
    pub fn are_left(&self) -> bool
        ensures { result ≡ nat_lt 0 self.now.left }
    {
        0 < self.left
    }

    /// Reads once from the reader, which takes a turn.
    ///
    /// # Errors
    ///
    /// The reader's error.
    pub fn read<R: Read>(&mut self, reader: &mut R, buffer: &mut [u8]) -> Result<usize>
        requires { 0 < self.old.left }
        ensures takes { self.old.left ≡ self.new.left + 1 }
        ensures bound { ReadsAtMost result buffer.new }
        ensures bytes { ReadConsumes (R.remaining reader.old) (R.remaining reader.new) result buffer.new }
    {
        self.left -= 1;
        reader.read(buffer)
    }
}
