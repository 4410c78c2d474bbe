//! The kinds of records, and the two directions of a connection.

ghost use Rattle.std.specs.Prelude.{◌≡◌, ◌<◌, Some, None};
ghost use Rattle.mq_log.specs.Framing.{kind_named, direction_of};
ghost use Rattle.mq_log.specs.Refusals.{allows_length, first_byte_refusal, needs_connection};

use super::header::longest_body;
use super::refusal::Refusal;

/// The kind of a record of the log, which its first byte names.
#[derive(Clone, Copy, Debug, PartialEq, Eq)]
pub enum RecordKind {
    /// 1: a network connection begins.
    Open,
    /// 2: bytes that the tested end sent.
    Sent,
    /// 3: bytes that the tested end received.
    Recv,
    /// 4: the network connection ends.
    Close,
    /// 5: the tested end is at rest.
    Rest,
    /// 6: the tested end released a QoS 2 message for onward delivery.
    Release,
}

/// A direction of a connection, as the tested end sees it.
#[derive(Clone, Copy, Debug, PartialEq, Eq)]
pub enum Direction {
    /// From the tested end to its peer.
    Sent,
    /// From the peer to the tested end.
    Recv,
}

/// The length of a RELEASE record's body: a Packet Identifier.
const RELEASE_BODY: u32 = 2;

impl RecordKind {
    /// The kind that a record's first byte names, if it names one.
    pub fn from_byte(byte: u8) -> Option<RecordKind>
        ensures { result ≡ kind_named byte }
    {
        match byte {
            1 => Some(RecordKind::Open),
            2 => Some(RecordKind::Sent),
            3 => Some(RecordKind::Recv),
            4 => Some(RecordKind::Close),
            5 => Some(RecordKind::Rest),
            6 => Some(RecordKind::Release),
            _ => None,
        }
    }

    /// The direction whose bytes a record of this kind carries, if it carries any.
    pub fn direction(self) -> Option<Direction>
        ensures { result ≡ direction_of (Some self) }
    {
        match self {
            RecordKind::Sent => Some(Direction::Sent),
            RecordKind::Recv => Some(Direction::Recv),
            RecordKind::Open | RecordKind::Close | RecordKind::Rest | RecordKind::Release => None,
        }
    }

    /// Whether a record of this kind may have a body of this length, in a log of this version.
    pub fn allows(self, version: u8, length: u32) -> bool
        ensures { result ≡ allows_length version (Some self) length }
    {
        match self {
            RecordKind::Sent | RecordKind::Recv => length <= longest_body(version),
            RecordKind::Release => length == RELEASE_BODY,
            RecordKind::Open | RecordKind::Close | RecordKind::Rest => length == 0,
        }
    }

    /// Whether a record of this kind is allowed only on an open connection.
    pub fn needs_connection(self) -> bool
        ensures { result ≡ needs_connection (Some self) }
    {
        match self {
            RecordKind::Sent | RecordKind::Recv | RecordKind::Close | RecordKind::Rest => true,
            RecordKind::Open | RecordKind::Release => false,
        }
    }

    /// The refusal that applies at the byte at this offset, the first one of a record of this kind:
    /// by whether the log has releases, whether a connection is open, and how many records came
    /// before it.
    #[inline(always)]
    pub fn refusal(self, at: u64, releases: bool, connected: bool, records: u32) -> Option<Refusal>
        ensures met { result ≡ first_byte_refusal at releases connected records self }
        ensures room { result ≡ None → records < 4294967295 }
    {
        if self == RecordKind::Open && connected {
            Some(Refusal::Nested(at))
        } else if self.needs_connection() && !connected {
            Some(Refusal::NotOpen(at))
        } else if self == RecordKind::Release && !releases {
            Some(Refusal::ReleaseUnrecorded(at))
        } else if records == u32::MAX {
            Some(Refusal::TooLong(at))
        } else {
            None
        }
    }
}
