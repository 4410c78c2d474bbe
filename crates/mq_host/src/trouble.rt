//! What keeps the program from its work, and what it says of it.
ghost use Rattle.std.specs.Prelude.{◌≡◌, ◌++◌};
ghost use Rattle.mq_host.specs.Streams.{IsTold, failure_line, stream};
ghost use Rattle.mq_host.specs.Troubles.{Tells, failure_in, reason_for, reason_line, reason_text, trouble_of};

use crate::error_stream::ErrorStream;
use crate::failure::{FAILED, Failure};
use crate::output::Output;
use std::io::ErrorKind;

/// Why something can't be opened or read.
#[derive(Clone, Copy, Debug, PartialEq, Eq)]
pub enum Reason {
    /// There is no file at the path.
    Missing,
    /// It may not be read.
    Denied,
    /// It is a directory.
    Directory,
    /// Part of the path, other than its end, isn't a directory.
    NoDirectory,
    /// The path, or a name in it, is too long.
    LongName,
    /// Its symbolic links lead back to themselves.
    Loop,
    /// A word of the command line isn't UTF-8.
    NotUtf8,
    /// The system gives another reason.
    Other,
}

impl Reason {
    /// The reason that an error of this kind gives for a file or a stream.
    pub fn of(kind: ErrorKind) -> Self
        ensures { result ≡ reason_for kind }
    {
        match kind {
            ErrorKind::NotFound => Reason::Missing,
            ErrorKind::PermissionDenied => Reason::Denied,
            ErrorKind::IsADirectory => Reason::Directory,
            ErrorKind::NotADirectory => Reason::NoDirectory,
            ErrorKind::InvalidFilename => Reason::LongName,
            ErrorKind::FilesystemLoop => Reason::Loop,
            _ => Reason::Other,
        }
    }

    // The end of a line that says so.
    fn text(self) -> &'static str
        ensures { result.now ≡ reason_text self }
    {
        match self {
            Reason::Missing => "there is no such file\n",
            Reason::Denied => "permission to read it is denied\n",
            Reason::Directory => "it is a directory\n",
            Reason::NoDirectory => "part of its path isn't a directory\n",
            Reason::LongName => "its name is too long\n",
            Reason::Loop => "its symbolic links lead back to themselves\n",
            Reason::NotUtf8 => {
                "a word isn't UTF-8; give a file of that name on standard input: mqjudge check < FILE\n"
            }
            Reason::Other => "the system can't read it\n",
        }
    }
}

/// What keeps the program from its work.
#[derive(Clone, Copy, Debug, PartialEq, Eq)]
pub enum Trouble {
    /// Something couldn't be opened or read, for this reason.
    Unread(Reason),
    /// The output couldn't be written.
    Write,
    /// Memory ran out.
    Memory,
}

impl Trouble {
    /// What failed; if that was reading, for this reason, if it is known.
    pub fn of(failure: Failure, reason: Option<Reason>) -> Self
        ensures failure { failure_in result ≡ failure }
        ensures reason { result ≡ trouble_of failure reason }
    {
        match failure {
            Failure::Read => Trouble::Unread(reason.unwrap_or(Reason::Other)),
            Failure::Write => Trouble::Write,
            Failure::Memory => Trouble::Memory,
        }
    }

    /// Writes to `error` what failed; if that was reading, a second line says what couldn't be
    /// read, which `place` names, and why. Nothing is written if `output` couldn't be written
    /// because nobody reads it any more. Returns the status to exit with.
    pub fn report<W: Output, E: ErrorStream>(self, place: &str, output: &W, error: &mut E) -> u8
        ensures status { result ≡ 4 }
        ensures told { Tells (W.is_closed output.now) place.now self (stream E.contents E.has_failed error.old error.new) }
    {
        match self {
            Trouble::Unread(reason) => report_unread(place, reason, error),
            Trouble::Write => {
                if output.is_closed() {
                    FAILED
                } else {
                    Failure::Write.report(error)
                }
            }
            Trouble::Memory => Failure::Memory.report(error),
        }
    }
}

// Writes to `error` that reading failed, what couldn't be read, and why, and returns the status.
fn report_unread<E: ErrorStream>(place: &str, reason: Reason, error: &mut E) -> u8
    ensures status { result ≡ 4 }
    ensures told { IsTold (stream E.contents E.has_failed error.old error.new)
        (failure_line Failure.Read ++ reason_line place.now reason) }
{
    // Nothing more can be done if `error` fails too.
    let _ = write_unread(place, reason, error);
    FAILED
}

// Writes these lines part by part, which takes no memory.
fn write_unread<E: ErrorStream>(place: &str, reason: Reason, error: &mut E) -> Result<(), Failure>
    ensures told { IsTold (stream E.contents E.has_failed error.old error.new)
        (failure_line Failure.Read ++ reason_line place.now reason) }
{
    error.write_message("mqjudge: read failed\nmqjudge: ")?;
    error.write_message(place)?;
    error.write_message(": ")?;
    error.write_message(reason.text())
}
