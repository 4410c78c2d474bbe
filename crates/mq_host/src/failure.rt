//! What keeps a task from being done, and the statuses that the program exits with.
ghost use Rattle.std.specs.Prelude.{◌≡◌};
ghost use Rattle.mq_host.specs.Streams.{IsTold, failure_line, stream};

use crate::error_stream::ErrorStream;
use crate::misuse::Misuse;

/// The status if a log was judged and has no fault, if a log was shown, and if bytes are one
/// packet.
pub const PASSED: u8 = 0;

/// The status if a log was judged and has faults, or if bytes aren't one packet.
pub const FAULTY: u8 = 1;

/// The status if the log was refused.
pub const REFUSED: u8 = 2;

/// The status if the words aren't a command line of the program, or a packet's digits aren't
/// hexadecimal.
pub const MISUSED: u8 = 3;

/// The status if reading or writing failed, or memory ran out.
pub const FAILED: u8 = 4;

/// What keeps a task from being done.
#[derive(Clone, Copy)]
pub enum Obstacle<'a> {
    /// Something failed.
    Failed(Failure),
    /// What the words ask for can't be done.
    Misused(Misuse<'a>),
}

/// What failed.
#[derive(Clone, Copy, Debug, PartialEq, Eq)]
pub enum Failure {
    /// The log couldn't be read.
    Read,
    /// The output couldn't be written.
    Write,
    /// Memory ran out.
    Memory,
}

impl Failure {
    /// Writes to `error` what failed, and returns the status to exit with. If that fails too, only
    /// a beginning of the line may be written.
    pub fn report<E: ErrorStream>(self, error: &mut E) -> u8
        ensures status { result ≡ 4 }
        ensures printed { IsTold (stream E.contents E.has_failed error.old error.new) (failure_line self) }
    {
        // Nothing more can be done if `error` fails too.
        let _ = error.write_message(self.line());
        FAILED
    }

    // The line that says what failed.
    fn line(self) -> &'static str
        ensures { result.now ≡ failure_line self }
    {
        match self {
            Failure::Read => "mqjudge: read failed\n",
            Failure::Write => "mqjudge: write failed\n",
            Failure::Memory => "mqjudge: out of memory\n",
        }
    }
}
