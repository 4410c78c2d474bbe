//! Where a reader of a log is among the log's records.

ghost use Rattle.std.specs.Prelude.{◌≡◌};
ghost use Rattle.mq_trace.specs.Tracing.{is_between};

use super::head::Head;
use mq_log::{Direction, RecordKind};

/// Where a reader is among the records of a log.
#[derive(Clone, Copy)]
pub enum Stage {
    /// Between two records.
    Between,
    /// Inside a record's head: its kind came, and 0 to 3 of the four bytes of its body's length.
    Head(Head),
    /// Inside a record's moment, after the length of its body.
    Moment {
        /// The kind that the record's first byte names.
        kind: RecordKind,
        /// The length of its body.
        length: u32,
        /// How many bytes of the moment came: 0 to 7.
        count: u8,
    },
    /// Inside the body of a SENT or RECV.
    Body {
        /// The direction whose bytes it carries.
        direction: Direction,
        /// How many of its bytes are still to come: 1 to 16,777,216.
        left: u32,
    },
    /// Inside the body of a RELEASE: its first byte, if that came.
    Release(Option<u8>),
}

impl Stage {
    /// Whether the reader is between two records.
    pub fn is_between(self) -> bool
        ensures { result ≡ is_between self }
    {
        match self {
            Stage::Between => true,
            Stage::Head(_) | Stage::Moment { .. } | Stage::Body { .. } | Stage::Release(_) => false,
        }
    }
}
