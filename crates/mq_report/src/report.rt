//! Reports: what is written for a verdict, or for a log that is refused.
ghost use Rattle.std.specs.Prelude.{◌≡◌, length, Some, IfErr, OnOk};
ghost use Rattle.std.specs.FinMap as map;
ghost use Rattle.std.specs.Io.KnownBytes.{Appends};
ghost use Rattle.mq_trace.specs.Writing.{AppendsBeginning};
ghost use Rattle.mq_report.specs.Report.{line, verdict_text, refused_report, report_on, FailsToReport};
ghost use Rattle.mq_report.specs.Coverage.{covered_report_on};
ghost use Rattle.mq_report.specs.Reasons.{reasoned_report_on};

pub mod coverage;
pub mod json;
pub mod line;
pub mod reasons;
pub mod summary;
pub mod text;
pub mod unjudged;

use self::coverage::Covered;
use self::json::{write_covered_json, write_json, write_reasoned_json, write_refusal};
use self::line::write_line;
use self::summary::{write_covered_summary, write_summary};
use self::text::{write_covered_text, write_reasoned_text, write_text};
use self::unjudged::Gap;
use super::lines::Lines;
use mq_log::Refusal;
use mq_rules::{Evidence, Faults, Role};
use std::alloc::Global;
use std::fmt;
use std::io::Write;

/// The form that a report is written in.
#[derive(Clone, Copy, Debug, PartialEq, Eq)]
pub enum Form {
    /// Lines of words: one for each fault, and a last one.
    Text,
    /// One line of JSON, without spaces and with its keys in ascending order.
    Json,
    /// Lines of words: one for each statement that has faults, and a last one.
    Summary,
}

/// The outcome of a report.
#[derive(Clone, Copy, Debug, PartialEq, Eq)]
pub enum Outcome {
    /// There are no faults.
    Pass,
    /// There is at least one fault.
    Fail,
}

/// The verdict on a log that isn't refused.
#[derive(Drop)]
pub struct Verdict {
    /// How many events the log has.
    pub events: u32,
    /// A fault for each pair of a position and a statement that is false there.
    pub faults: Faults,
}

/// Why there is no outcome.
#[derive(Clone, Copy, Debug, PartialEq, Eq)]
pub enum RunFault {
    /// The log can't be judged.
    Refused(Refusal),
    /// A write failed: the writer returned an error, also one for an interruption, or took no byte.
    Write,
    /// There was no memory for a report as JSON.
    Memory,
}

impl From<Refusal> for RunFault {
    ghost use Rattle.mq_report.specs.declared.report.RunFault.TheVariants.{Refused};

    ghost from_gives = { λ refusal fault. fault ≡ Refused refusal };

    fn from(refusal: Refusal) -> Self {
        RunFault::Refused(refusal)
    }
}

/// How many faults and events there are, as a report's last line shows it.
#[derive(Clone, Copy)]
struct Counts {
    faults: usize,
    events: u32,
}

impl fmt::Display for Counts {
    ghost output = { λ counts. Some (verdict_text counts.faults counts.events) };

    fn fmt<W: fmt::Write>(&self, f: &mut fmt::Formatter<W>) -> fmt::Result {
        let Counts { faults, events } = *self;
        if faults == 0 {
            write!(f, "pass {events} events")
        } else {
            write!(f, "fail {faults} faults {events} events")
        }
    }
}

/// Writes the report on a verdict for an end in this role, in this form.
///
/// # Errors
///
/// `Write` if a write failed. A beginning of the report, but not all of it, was then written.
/// `Memory` if there is no memory for a report as JSON. Nothing was then written.
pub fn write_report<W: Write>(
    alloc: Global,
    verdict: &Verdict,
    role: Role,
    form: Form,
    writer: &mut W,
) -> Result<(), RunFault>
    ensures ok { OnOk result (Appends (W.contents writer.old) (W.contents writer.new)
        (report_on form role (map.entries verdict.now.faults) verdict.now.events)) }
    ensures err { IfErr result (FailsToReport form (W.contents writer.old) (W.contents writer.new)
        (report_on form role (map.entries verdict.now.faults) verdict.now.events)) }
{
    match form {
        Form::Text => write_text(verdict, role, writer),
        Form::Json => write_json(alloc, verdict, role, writer),
        Form::Summary => write_summary(verdict, role, writer),
    }
}

/// Writes the report on a verdict for an end in this role, in this form, which also says how often
/// each of these statements was put to the test, and what wasn't judged: these gaps.
///
/// # Errors
///
/// As `write_report`.
pub fn write_covered_report<W: Write>(
    alloc: Global,
    verdict: &Verdict,
    role: Role,
    rows: &[Covered],
    gaps: &[Gap],
    form: Form,
    writer: &mut W,
) -> Result<(), RunFault>
    ensures ok { OnOk result (Appends (W.contents writer.old) (W.contents writer.new)
        (covered_report_on form role (map.entries verdict.now.faults) verdict.now.events rows.now gaps.now)) }
    ensures err { IfErr result (FailsToReport form (W.contents writer.old) (W.contents writer.new)
        (covered_report_on form role (map.entries verdict.now.faults) verdict.now.events rows.now gaps.now)) }
{
    match form {
        Form::Text => write_covered_text(verdict, role, rows, gaps, writer),
        Form::Json => write_covered_json(alloc, verdict, role, rows, gaps, writer),
        Form::Summary => write_covered_summary(verdict, role, rows, gaps, writer),
    }
}

/// Writes the report on a verdict for an end in this role, in this form, which also says what each
/// fault conflicts with. The reasons are those of the faults, in their order: what is there beyond
/// the faults is ignored, and a fault beyond their end has no event and no number. In the form
/// `Summary` it is the report of `write_report`.
///
/// # Errors
///
/// As `write_report`.
pub fn write_reasoned_report<W: Write>(
    alloc: Global,
    verdict: &Verdict,
    role: Role,
    reasons: &[Evidence],
    form: Form,
    writer: &mut W,
) -> Result<(), RunFault>
    ensures ok { OnOk result (Appends (W.contents writer.old) (W.contents writer.new)
        (reasoned_report_on form role (map.entries verdict.now.faults) verdict.now.events reasons.now)) }
    ensures err { IfErr result (FailsToReport form (W.contents writer.old) (W.contents writer.new)
        (reasoned_report_on form role (map.entries verdict.now.faults) verdict.now.events reasons.now)) }
{
    match form {
        Form::Text => write_reasoned_text(verdict, role, reasons, writer),
        Form::Json => write_reasoned_json(alloc, verdict, role, reasons, writer),
        Form::Summary => write_report(alloc, verdict, role, Form::Summary, writer),
    }
}

// Writes the last line of a report in words. It is built in the buffer.
//
// Errors: `Write` if a write failed.
fn write_verdict<W: Write>(
    verdict: &Verdict,
    lines: &mut Lines,
    writer: &mut W,
) -> Result<(), RunFault>
    ensures ok { OnOk result (Appends (W.contents writer.old) (W.contents writer.new)
        (line (verdict_text (length (map.entries verdict.now.faults)) verdict.now.events))) }
    ensures write { IfErr result (λ fault. (fault ≡ RunFault.Write) × AppendsBeginning (W.contents writer.old) (W.contents writer.new)
        (line (verdict_text (length (map.entries verdict.now.faults)) verdict.now.events))) }
{
    let counts = Counts {
        faults: verdict.faults.len(),
        events: verdict.events,
    };
    write_line(counts, lines, writer)
}

/// Writes the line that replaces the report for a log that is refused. It takes memory only in the
/// form `Json`.
///
/// # Errors
///
/// `Write` if a write failed: the writer returned an error, also one for an interruption, or took
/// no byte. A beginning of the line, but not all of it, was then written. `Memory` if there is no
/// memory for the JSON. Nothing was then written.
pub fn write_refused<W: Write>(
    alloc: Global,
    refusal: &Refusal,
    form: Form,
    writer: &mut W,
) -> Result<(), RunFault>
    ensures ok { OnOk result (Appends (W.contents writer.old) (W.contents writer.new) (refused_report form refusal.now)) }
    ensures err { IfErr result (FailsToReport form (W.contents writer.old) (W.contents writer.new) (refused_report form refusal.now)) }
{
    match form {
        Form::Text | Form::Summary => write_line(*refusal, &mut Lines::new(), writer),
        Form::Json => write_refusal(alloc, *refusal, writer),
    }
}
