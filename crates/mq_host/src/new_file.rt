//! A file that is made and written.
ghost use Rattle.std.specs.Prelude.{◌≡◌};

use crate::failure::Failure;
use std::io::{BufWriter, Write};

/// A file that is made. What is written to it may wait in memory until it is saved.
pub trait NewFile: Write {
    ghost use Rattle.std.specs.Prelude.{◌≡◌, IfErr, OnOk};
    ghost use Rattle.std.specs.Io.KnownBytes.{Keeps};

    // Nothing that was written waits in memory.
    ghost is_saved: { Self → Type 0 };

    /// Hands all that was written to the system.
    ///
    /// # Errors
    ///
    /// `Write` if that failed.
    fn save(&mut self) -> Result<(), Failure>
        ensures kept { Keeps (Self.contents self.old) (Self.contents self.new) }
        ensures saved { OnOk result (is_saved self.new) }
        ensures failed { IfErr result (λ failure. failure ≡ Failure.Write) };
}

impl<W: Write + Drop> NewFile for BufWriter<W> {
    ghost use Rattle.std.specs.Prelude.{◌≡◌, []};
    ghost use Rattle.std.specs.Io.Buffered.{writer_buffer};

    ghost is_saved = { λ writer. writer_buffer writer ≡ [] };

    fn save(&mut self) -> Result<(), Failure> {
        match self.flush() {
            Ok(()) => Ok(()),
            Err(_) => Err(Failure::Write),
        }
    }
}
