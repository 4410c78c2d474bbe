//! The stream for messages.
use crate::failure::Failure;
use crate::writing::write_out;
use std::io::Write;

/// The stream for messages. Of `Write` alone nobody knows whether a write has failed, so a message
/// could be left out unseen; whoever writes to this one leaves none out unless it has failed.
pub trait ErrorStream {
    ghost use Rattle.std.specs.Prelude.{◌≡◌, Bool, IfErr, List, ℕ, OnOk, Option};
    ghost use Rattle.std.specs.Io.KnownBytes.{Appends};
    ghost use Rattle.mq_host.specs.Streams.{IsCutOff, IsTold, stream};

    // The bytes that it holds, if they are known.
    ghost contents: { Self → Option (List ℕ) };

    // A message couldn't be written to it, or not flushed.
    ghost has_failed: { Self → Bool };

    /// Writes a message, and flushes the stream.
    ///
    /// # Errors
    ///
    /// `Write` if a write or the flush failed. Part of the message, or all of it, was then written.
    fn write_message(&mut self, text: &str) -> Result<(), Failure>
        ensures written { OnOk result (Appends (contents self.old) (contents self.new) text.now) }
        ensures failed { IfErr result (λ failure. failure ≡ Failure.Write) }
        ensures cut { IfErr result (λ _. IsCutOff (stream contents has_failed self.old self.new) text.now) }
        ensures told { IsTold (stream contents has_failed self.old self.new) text.now };
}

impl<W: Write> ErrorStream for W {
    ghost use Rattle.std.specs.Prelude.{true};

    ghost contents = { W.contents };

    // Whether one of its writes failed isn't known.
    ghost has_failed = { λ _. true };

    fn write_message(&mut self, text: &str) -> Result<(), Failure> {
        write_out(text, self)?;
        Ok(())
    }
}
