//! The stream for output.
ghost use Rattle.std.specs.Prelude.{◌≡◌, false};
ghost use Rattle.std.specs.IoError.{error_kind};
ghost use Rattle.mq_host.specs.Troubles.{is_broken_pipe};

use std::io::{self, ErrorKind, Write};

/// The stream for output, which knows whether somebody still reads it. `Write` alone doesn't tell.
pub trait Output: Write {
    ghost use Rattle.std.specs.Prelude.{◌≡◌, Bool};

    // Nobody reads it any more.
    ghost is_closed: { Self → Bool };

    /// Whether the latest write or flush that failed did so because nobody reads the stream any
    /// more, as where a pipe's reader has ended.
    fn is_closed(&self) -> bool
        ensures { result ≡ is_closed self.now };
}

/// A writer, and whether its reader has gone.
#[derive(Drop)]
pub struct Outlet<W> {
    writer: W,
    is_closed: bool,
}

impl<W> Outlet<W> {
    /// An outlet to this writer.
    pub fn new(writer: W) -> Self
        ensures writer { result.writer ≡ writer }
        ensures open { result.is_closed ≡ false }
    {
        Outlet {
            writer,
            is_closed: false,
        }
    }

    /// The writer.
    pub fn get_ref(&self) -> &W
        ensures { result.now ≡ self.now.writer }
    {
        &self.writer
    }
}

impl<W: Write> Write for Outlet<W> {
    ghost contents = { λ outlet. W.contents outlet.writer };

    fn write(&mut self, buf: &[u8]) -> io::Result<usize> {
        match self.writer.write(buf) {
            Ok(count) => Ok(count),
            Err(error) => {
                self.is_closed = has_no_reader(&error);
                Err(error)
            }
        }
    }

    fn flush(&mut self) -> io::Result<()> {
        match self.writer.flush() {
            Ok(()) => Ok(()),
            Err(error) => {
                self.is_closed = has_no_reader(&error);
                Err(error)
            }
        }
    }
}

impl<W: Write> Output for Outlet<W> {
    ghost is_closed = { λ outlet. outlet.is_closed };

    fn is_closed(&self) -> bool {
        self.is_closed
    }
}

// Whether a write failed because nobody reads what is written.
fn has_no_reader(error: &io::Error) -> bool
    ensures { result ≡ is_broken_pipe (error_kind error.now) }
{
    matches!(error.kind(), ErrorKind::BrokenPipe)
}
