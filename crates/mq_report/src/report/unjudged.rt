//! What in a log wasn't judged, as reports say it.
ghost use Rattle.std.specs.Prelude.{◌≡◌, length, Some, IfErr, OnOk};
ghost use Rattle.std.specs.FinMap as map;
ghost use Rattle.std.specs.Io.KnownBytes.{Appends};
ghost use Rattle.mq_trace.specs.Writing.{AppendsBeginning};
ghost use Rattle.mq_report.specs.Coverage.{unjudged_ending};
ghost use Rattle.mq_report.specs.Unjudged.{begun_name, gap_what, gap_why, gap_begun, gap_place, gap_text, gap_lines};

use super::super::lines::Lines;
use super::line::write_line;
use super::{RunFault, Verdict, write_verdict};
use crate::types::type_of;
use mq_log::{Direction, Place3};
use std::fmt;
use std::io::Write;

/// A packet of which only a beginning came.
#[derive(Clone, Copy, Debug, PartialEq, Eq)]
pub struct Begun {
    /// Its first byte, which has its type in the high four bits (MQTT 5.0, section 2.1.2).
    pub first: u8,
    /// How many bytes of it came.
    pub bytes: usize,
}

impl Begun {
    /// The name of its type, as `show --long` has it.
    pub fn type_name(&self) -> &'static str
        ensures { result.now ≡ begun_name self.now }
    {
        type_of(self.first)
    }
}

/// What in a log wasn't judged, and why.
#[derive(Clone, Copy, Debug, PartialEq, Eq)]
pub enum Gap {
    /// A direction was given up with this event: nothing that it carried later on its connection.
    Lost(Direction, Place3),
    /// The CONNACK at this event resumed a session that the log can't tell: no statement on
    /// sessions on that connection.
    UnknownSession(Place3),
    /// A direction had begun this packet (MQTT 5.0, section 2.1), and the rest of it never came.
    /// The CLOSE at this place dropped its bytes, or the log's end did: no statement on a packet.
    Unfinished(Direction, Begun, Option<Place3>),
    /// The connection that begins with this event has no CONNACK and no CLOSE: the same.
    UndecidedSession(Place3),
    /// The SUBSCRIBE at this event asked for a shared subscription: B01 and B02 after it in its
    /// session.
    Shared(Place3),
    /// No REST binds: no missing answer was a fault.
    NoRest,
    /// The log doesn't record releases: L1, L2 and L3.
    NoReleases,
}

impl Gap {
    /// What wasn't judged, as reports name it: a direction, a session, statements, or answers.
    pub fn what(&self) -> &'static str
        ensures { result.now ≡ gap_what self.now }
    {
        match self {
            Gap::Lost(Direction::Sent, _) | Gap::Unfinished(Direction::Sent, ..) => "sent",
            Gap::Lost(Direction::Recv, _) | Gap::Unfinished(Direction::Recv, ..) => "received",
            Gap::UnknownSession(_) | Gap::UndecidedSession(_) => "session",
            Gap::Shared(_) => "B01 B02",
            Gap::NoRest => "answers",
            Gap::NoReleases => "L1 L2 L3",
        }
    }

    /// Why it wasn't judged, as reports name it.
    pub fn why(&self) -> &'static str
        ensures { result.now ≡ gap_why self.now }
    {
        match self {
            Gap::Lost(..) => "lost",
            Gap::UnknownSession(_) => "unknown",
            Gap::Unfinished(..) => "unfinished",
            Gap::UndecidedSession(_) => "undecided",
            Gap::Shared(_) => "shared",
            Gap::NoRest => "no-rest",
            Gap::NoReleases => "no-releases",
        }
    }

    /// The packet that was begun, if it is one.
    pub fn begun(&self) -> Option<Begun>
        ensures { result ≡ gap_begun self.now }
    {
        match self {
            Gap::Unfinished(_, begun, _) => Some(*begun),
            _ => None,
        }
    }

    /// The event from which on it wasn't judged, or with which it was dropped, if it is one event.
    pub fn place(&self) -> Option<Place3>
        ensures { result ≡ gap_place self.now }
    {
        match self {
            Gap::Lost(_, place)
            | Gap::UnknownSession(place)
            | Gap::UndecidedSession(place)
            | Gap::Shared(place) => Some(*place),
            Gap::Unfinished(_, _, place) => *place,
            Gap::NoRest | Gap::NoReleases => None,
        }
    }
}

impl fmt::Display for Gap {
    ghost output = { λ gap. Some (gap_text gap) };

    fn fmt<W: fmt::Write>(&self, f: &mut fmt::Formatter<W>) -> fmt::Result {
        let what = self.what();
        let why = self.why();
        match self.begun() {
            Some(begun) => {
                let name = begun.type_name();
                let bytes = begun.bytes;
                match self.place() {
                    Some(
                        Place3 {
                            position,
                            record_no,
                            ..
                        },
                    ) => write!(
                        f,
                        "unjudged {what} {why} {name} bytes {bytes} event {position} record {record_no}"
                    ),
                    None => write!(f, "unjudged {what} {why} {name} bytes {bytes}"),
                }
            }
            None => match self.place() {
                Some(
                    Place3 {
                        position,
                        record_no,
                        ..
                    },
                ) => write!(
                    f,
                    "unjudged {what} {why} event {position} record {record_no}"
                ),
                None => write!(f, "unjudged {what} {why}"),
            },
        }
    }
}

/// Writes a line for each of these gaps, and then the verdict's line.
///
/// # Errors
///
/// `Write` if a write failed.
pub fn write_unjudged_ending<W: Write>(
    verdict: &Verdict,
    gaps: &[Gap],
    lines: &mut Lines,
    writer: &mut W,
) -> Result<(), RunFault>
    ensures ok { OnOk result (Appends (W.contents writer.old) (W.contents writer.new)
        (unjudged_ending (length (map.entries verdict.now.faults)) verdict.now.events gaps.now)) }
    ensures write { IfErr result (λ fault. (fault ≡ RunFault.Write) × AppendsBeginning (W.contents writer.old) (W.contents writer.new)
        (unjudged_ending (length (map.entries verdict.now.faults)) verdict.now.events gaps.now)) }
{
    write_gaps(gaps, lines, writer)?;
    write_verdict(verdict, lines, writer)
}

// Writes a line for each of these gaps.
//
// Errors: `Write` if a write failed.
fn write_gaps<W: Write>(gaps: &[Gap], lines: &mut Lines, writer: &mut W) -> Result<(), RunFault>
    ensures ok { OnOk result (Appends (W.contents writer.old) (W.contents writer.new) (gap_lines gaps.now)) }
    ensures write { IfErr result (λ fault. (fault ≡ RunFault.Write)
        × AppendsBeginning (W.contents writer.old) (W.contents writer.new) (gap_lines gaps.now)) }
{
    for gap in gaps {
        write_line(*gap, lines, writer)?;
    }
    Ok(())
}
