//! Reports as text: a line for each fault.
ghost use Rattle.std.specs.Prelude.{◌≡◌, Some, IfErr, OnOk};
ghost use Rattle.std.specs.FinMap as map;
ghost use Rattle.std.specs.Io.KnownBytes.{Appends};
ghost use Rattle.mq_trace.specs.Writing.{AppendsBeginning};
ghost use Rattle.mq_report.specs.Report.{offset_text, fault_text, fault_lines, report_on};
ghost use Rattle.mq_report.specs.Coverage.{covered_report_on};
ghost use Rattle.mq_report.specs.Reasons.{reasoned_report_on};

use super::super::lines::Lines;
use super::coverage::{Covered, write_covered_ending};
use super::line::write_line;
use super::reasons::write_reasoned_faults;
use super::unjudged::Gap;
use super::{Form, RunFault, Verdict, write_verdict};
use mq_rules::{Evidence, Fault, FaultKey, Faults, Role};
use std::fmt;
use std::io::Write;

/// Where in a packet a fault is, as reports show it.
#[derive(Clone, Copy)]
struct Offset(Option<u32>);

impl fmt::Display for Offset {
    ghost output = { λ offset. Some (offset_text offset.0) };

    fn fmt<W: fmt::Write>(&self, f: &mut fmt::Formatter<W>) -> fmt::Result {
        match self.0 {
            Some(offset) => write!(f, "{offset}"),
            None => write!(f, "-"),
        }
    }
}

/// A fault of an end in this role, as reports show it.
#[derive(Clone, Copy)]
pub struct Found {
    /// The end's role.
    pub role: Role,
    /// Where the fault is, and the statement.
    pub key: FaultKey,
    /// What else is known of it.
    pub fault: Fault,
}

impl fmt::Display for Found {
    ghost output = { λ found. Some (fault_text found.role found.key found.fault) };

    fn fmt<W: fmt::Write>(&self, f: &mut fmt::Formatter<W>) -> fmt::Result {
        let FaultKey { position, rule } = self.key;
        let Fault {
            decided,
            record_no,
            offset,
        } = self.fault;
        let code = rule.code();
        let citation = rule.citation(self.role);
        let offset = Offset(offset);
        write!(
            f,
            "fault {position} {code} {citation} decided {decided} record {record_no} offset {offset}"
        )
    }
}

/// Writes the report on a verdict for an end in this role: a line for each fault, ascending by
/// position and then by statement, and a last line. It takes no memory.
///
/// # Errors
///
/// `Write` if a write failed: the writer returned an error, also one for an interruption, or took
/// no byte. A beginning of the report, but not all of it, was then written.
pub fn write_text<W: Write>(verdict: &Verdict, role: Role, writer: &mut W) -> Result<(), RunFault>
    ensures ok { OnOk result (Appends (W.contents writer.old) (W.contents writer.new)
        (report_on Form.Text role (map.entries verdict.now.faults) verdict.now.events)) }
    ensures write { IfErr result (λ fault. (fault ≡ RunFault.Write) × AppendsBeginning (W.contents writer.old) (W.contents writer.new)
        (report_on Form.Text role (map.entries verdict.now.faults) verdict.now.events)) }
{
    let mut lines = Lines::new();
    write_faults(&verdict.faults, role, &mut lines, writer)?;
    write_verdict(verdict, &mut lines, writer)
}

/// Writes the report on a verdict for an end in this role, as `write_text` does, but before the
/// last line also how often each of these statements was put to the test, and these gaps. It takes
/// no memory.
///
/// # Errors
///
/// As `write_text`.
pub fn write_covered_text<W: Write>(
    verdict: &Verdict,
    role: Role,
    rows: &[Covered],
    gaps: &[Gap],
    writer: &mut W,
) -> Result<(), RunFault>
    ensures ok { OnOk result (Appends (W.contents writer.old) (W.contents writer.new)
        (covered_report_on Form.Text role (map.entries verdict.now.faults) verdict.now.events rows.now gaps.now)) }
    ensures write { IfErr result (λ fault. (fault ≡ RunFault.Write) × AppendsBeginning (W.contents writer.old) (W.contents writer.new)
        (covered_report_on Form.Text role (map.entries verdict.now.faults) verdict.now.events rows.now gaps.now)) }
{
    let mut lines = Lines::new();
    write_faults(&verdict.faults, role, &mut lines, writer)?;
    write_covered_ending(verdict, role, rows, gaps, &mut lines, writer)
}

/// Writes the report on a verdict for an end in this role, as `write_text` does, but after each
/// fault's line also what it conflicts with. The reasons are those of the faults, in their order.
/// It takes no memory.
///
/// # Errors
///
/// As `write_text`.
pub fn write_reasoned_text<W: Write>(
    verdict: &Verdict,
    role: Role,
    reasons: &[Evidence],
    writer: &mut W,
) -> Result<(), RunFault>
    ensures ok { OnOk result (Appends (W.contents writer.old) (W.contents writer.new)
        (reasoned_report_on Form.Text role (map.entries verdict.now.faults) verdict.now.events reasons.now)) }
    ensures write { IfErr result (λ fault. (fault ≡ RunFault.Write) × AppendsBeginning (W.contents writer.old) (W.contents writer.new)
        (reasoned_report_on Form.Text role (map.entries verdict.now.faults) verdict.now.events reasons.now)) }
{
    let mut lines = Lines::new();
    write_reasoned_faults(&verdict.faults, role, reasons, &mut lines, writer)?;
    write_verdict(verdict, &mut lines, writer)
}

// Writes a line for each fault. Each is built in the buffer.
//
// Errors: `Write` if a write failed.
fn write_faults<W: Write>(
    faults: &Faults,
    role: Role,
    lines: &mut Lines,
    writer: &mut W,
) -> Result<(), RunFault>
    ensures ok { OnOk result (Appends (W.contents writer.old) (W.contents writer.new) (fault_lines role (map.entries faults.now))) }
    ensures write { IfErr result (λ fault. (fault ≡ RunFault.Write)
        × AppendsBeginning (W.contents writer.old) (W.contents writer.new) (fault_lines role (map.entries faults.now))) }
{
    for (key, fault) in faults.iter() {
        let found = Found {
            role,
            key: *key,
            fault: *fault,
        };
        write_line(found, lines, writer)?;
    }
    Ok(())
}
