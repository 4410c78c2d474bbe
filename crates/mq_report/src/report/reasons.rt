//! What each fault conflicts with, as reports say it.
ghost use Rattle.std.specs.Prelude.{◌≡◌, ◌++◌, Some, IfErr, OnOk};
ghost use Rattle.std.specs.FinMap as map;
ghost use Rattle.std.specs.Io.KnownBytes.{Appends};
ghost use Rattle.mq_trace.specs.Writing.{AppendsBeginning};
ghost use Rattle.mq_report.specs.Report.{line, fault_text};
ghost use Rattle.mq_report.specs.Reasons.{event_text, because_text, first_reason, later_reasons, reasoned, reasoned_lines};

use super::super::lines::Lines;
use super::RunFault;
use super::line::write_line;
use super::text::Found;
use mq_rules::{Evidence, FaultKey, Faults, Numbers, Role};
use std::fmt;
use std::io::Write;

/// The event because of which a position is at fault, as reports show it.
#[derive(Clone, Copy)]
struct Event(Option<u32>);

impl fmt::Display for Event {
    ghost output = { λ event. Some (event_text event.0) };

    fn fmt<W: fmt::Write>(&self, f: &mut fmt::Formatter<W>) -> fmt::Result {
        match self.0 {
            Some(position) => write!(f, "{position}"),
            None => write!(f, "-"),
        }
    }
}

/// What a fault conflicts with, as reports show it.
#[derive(Clone, Copy)]
struct Because {
    key: FaultKey,
    reason: Evidence,
}

impl fmt::Display for Because {
    ghost output = { λ found. Some (because_text found.key found.reason) };

    fn fmt<W: fmt::Write>(&self, f: &mut fmt::Formatter<W>) -> fmt::Result {
        let FaultKey { position, rule } = self.key;
        let code = rule.code();
        let event = Event(self.reason.because);
        match self.reason.numbers {
            Numbers::Nothing => write!(f, "because {position} {code} event {event}"),
            Numbers::One(a) => write!(f, "because {position} {code} event {event} numbers {a}"),
            Numbers::Two(a, b) => write!(
                f,
                "because {position} {code} event {event} numbers {a} {b}"
            ),
        }
    }
}

/// The first of these reasons. Beyond their end there is no event and no number.
pub fn first_reason(reasons: &[Evidence]) -> Evidence
    ensures { result ≡ first_reason reasons.now }
{
    match reasons.split_first() {
        Some((first, _)) => *first,
        None => Evidence::nothing(),
    }
}

/// The reasons after the first one.
pub fn later_reasons(reasons: &[Evidence]) -> &[Evidence]
    ensures { result.now ≡ later_reasons reasons.now }
{
    match reasons.split_first() {
        Some((_, later)) => later,
        None => reasons,
    }
}

/// Writes two lines for each fault: its own, and one that says what it conflicts with. The reasons
/// are those of the faults, in their order; a fault beyond their end has none. Each line is built
/// in the buffer.
///
/// # Errors
///
/// `Write` if a write failed.
pub fn write_reasoned_faults<W: Write>(
    faults: &Faults,
    role: Role,
    reasons: &[Evidence],
    lines: &mut Lines,
    writer: &mut W,
) -> Result<(), RunFault>
    ensures ok { OnOk result (Appends (W.contents writer.old) (W.contents writer.new)
        (reasoned_lines role (reasoned (map.entries faults.now) reasons.now))) }
    ensures write { IfErr result (λ fault. (fault ≡ RunFault.Write) × AppendsBeginning (W.contents writer.old) (W.contents writer.new)
        (reasoned_lines role (reasoned (map.entries faults.now) reasons.now))) }
{
    let mut left = reasons;
    for (key, fault) in faults.iter() {
        let found = Found {
            role,
            key: *key,
            fault: *fault,
        };
        write_both_lines(found, first_reason(left), lines, writer)?;
        left = later_reasons(left);
    }
    Ok(())
}

// Writes a fault's line, and then the line that says what it conflicts with.
//
// Errors: `Write` if a write failed.
fn write_both_lines<W: Write>(
    found: Found,
    reason: Evidence,
    lines: &mut Lines,
    writer: &mut W,
) -> Result<(), RunFault>
    ensures ok { OnOk result (Appends (W.contents writer.old) (W.contents writer.new)
        (line (fault_text found.role found.key found.fault) ++ line (because_text found.key reason))) }
    ensures write { IfErr result (λ fault. (fault ≡ RunFault.Write) × AppendsBeginning (W.contents writer.old) (W.contents writer.new)
        (line (fault_text found.role found.key found.fault) ++ line (because_text found.key reason))) }
{
    write_line(found, lines, writer)?;
    let because = Because {
        key: found.key,
        reason,
    };
    write_line(because, lines, writer)
}
