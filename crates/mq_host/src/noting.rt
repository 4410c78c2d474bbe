//! A reader that notes why a read failed.
ghost use Rattle.std.specs.Prelude.{◌≡◌, MatchResult, None, Some};
ghost use Rattle.std.specs.Io.{ReadsAtMost};
ghost use Rattle.std.specs.Io.KnownBytes.{ReadConsumes};
ghost use Rattle.std.specs.IoError.{error_kind};
ghost use Rattle.mq_host.specs.Troubles.{reason_for};

use crate::trouble::Reason;
use std::io::{self, Read};

/// A reader, and why its latest read failed, if it did. What reads from it may not pass that on.
#[derive(Drop)]
pub struct Noting<R> {
    reader: R,
    reason: Option<Reason>,
}

impl<R> Noting<R> {
    /// The same reader, of which no read has failed yet.
    pub fn new(reader: R) -> Self
        ensures reader { result.reader ≡ reader }
        ensures none { result.reason ≡ None }
    {
        Noting {
            reader,
            reason: None,
        }
    }

    /// Why the latest read failed, if it did.
    pub fn reason(&self) -> Option<Reason>
        ensures { result ≡ self.now.reason }
    {
        self.reason
    }
}

impl<R: Read> Read for Noting<R> {
    ghost remaining = { λ noting. R.remaining noting.reader };

    fn read(&mut self, buf: &mut [u8]) -> io::Result<usize>
        ensures bound { ReadsAtMost result buf.new }
        ensures bytes { ReadConsumes (R.remaining self.old.reader) (R.remaining self.new.reader) result buf.new }
        ensures noted { MatchResult result (λ _. self.new.reason ≡ None) (λ error. self.new.reason ≡ Some (reason_for (error_kind error))) }
    {
        match self.reader.read(buf) {
            Ok(count) => {
                self.reason = None;
                Ok(count)
            }
            Err(error) => {
                self.reason = Some(Reason::of(error.kind()));
                Err(error)
            }
        }
    }
}
