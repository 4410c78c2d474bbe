//! How far a long log has been judged, for somebody who waits at a terminal.
ghost use Rattle.std.specs.Prelude.{◌≡◌, ◌+◌, false};
ghost use Rattle.mq_rules.specs.Weights.{in_word};

use mq_judge::Progress;
use std::io::{self, Write};

// After how many bytes a line is due, and after how many more the next one.
const STEP: u64 = 50_000_000;

// How many bytes a line calls a megabyte.
const MEGABYTE: u64 = 1_000_000;

/// Says on a terminal how far judging is: after each 50 MB a line in place of the one before. If it
/// isn't to be shown, it writes nothing.
#[derive(Drop)]
pub struct Meter<E> {
    error: E,
    is_shown: bool,
    bytes: u64,
    /// How many bytes are judged when the next line is due.
    due: u64,
}

impl<E: Write> Meter<E> {
    /// A meter that writes to this stream, if it is shown at all.
    pub fn new(error: E, is_shown: bool) -> Self
        ensures error { result.error ≡ error }
        ensures shown { result.is_shown ≡ is_shown }
        ensures nothing { result.bytes ≡ 0 }
    {
        Meter {
            error,
            is_shown,
            bytes: 0,
            due: STEP,
        }
    }

    // Counts bytes, and writes the next line if it is due.
    fn count(&mut self, bytes: u64, faults: usize)
        ensures counts { self.new.bytes ≡ in_word (self.old.bytes + bytes) }
        ensures quiet { self.old.is_shown ≡ false → self.new.error ≡ self.old.error }
    {
        self.bytes = self.bytes.saturating_add(bytes);
        if self.is_shown && self.due <= self.bytes {
            self.due = self.bytes.saturating_add(STEP);
            // A line that the terminal doesn't take is left out.
            let _ = self.put_progress(faults);
        }
    }

    // Writes the line in place of the one before.
    fn put_progress(&mut self, faults: usize) -> io::Result<()>
        ensures counts { self.new.bytes ≡ self.old.bytes }
    {
        let megabytes = self.bytes / MEGABYTE;
        write!(
            self.error,
            "\rmqjudge: {megabytes} MB judged, {faults} faults so far"
        )?;
        self.error.flush()
    }

    // Ends the last line, if there is one.
    fn end_line(&mut self)
        ensures counts { self.new.bytes ≡ self.old.bytes }
        ensures quiet { self.old.is_shown ≡ false → self.new.error ≡ self.old.error }
    {
        if self.is_shown && STEP < self.due {
            let _ = self.error.write_all(b"\n");
        }
    }
}

impl<E: Write> Progress for Meter<E> {
    ghost use Rattle.std.specs.Prelude.{◌≡◌};
    ghost use Rattle.mq_rules.specs.Weights.{in_word};
    ghost use Rattle.mq_judge.specs.Telling.{bytes_said};

    // It has counted the bytes that it was told of, as far as a number of 64 bits does.
    ghost told = { λ meter said. meter.bytes ≡ in_word (bytes_said said) };

    fn advance(&mut self, bytes: usize, faults: usize) {
        self.count(bytes as u64, faults);
    }

    fn end(&mut self) {
        self.end_line();
    }
}
