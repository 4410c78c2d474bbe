//! How often each statement was put to the test, as reports in words say it.
ghost use Rattle.std.specs.Prelude.{◌≡◌, length, Some, IfErr, OnOk};
ghost use Rattle.std.specs.FinMap as map;
ghost use Rattle.std.specs.Io.KnownBytes.{Appends};
ghost use Rattle.mq_trace.specs.Writing.{AppendsBeginning};
ghost use Rattle.mq_report.specs.Coverage.{places_text, places_lines, covered_count, covered_text, coverage_lines, covered_ending};

use super::super::lines::Lines;
use super::line::write_line;
use super::unjudged::{Gap, write_unjudged_ending};
use super::{RunFault, Verdict};
use mq_rules::{Role, Rule};
use std::fmt;
use std::io::Write;

/// How often a statement was put to the test.
#[derive(Clone, Copy, Debug, PartialEq, Eq)]
pub struct Covered {
    /// The statement.
    pub rule: Rule,
    /// At how many positions it was put to the test.
    pub places: u32,
}

/// A statement of an end in this role, as reports show how often it was put to the test.
#[derive(Clone, Copy)]
struct Row {
    role: Role,
    covered: Covered,
}

impl fmt::Display for Row {
    ghost output = { λ row. Some (places_text row.role row.covered) };

    fn fmt<W: fmt::Write>(&self, f: &mut fmt::Formatter<W>) -> fmt::Result {
        let Covered { rule, places } = self.covered;
        let code = rule.code();
        let citation = rule.citation(self.role);
        write!(f, "tested {code} {citation} places {places}")
    }
}

/// How many statements were put to the test, of how many.
#[derive(Clone, Copy)]
struct Total {
    covered: usize,
    statements: usize,
}

impl fmt::Display for Total {
    ghost output = { λ total. Some (covered_text total.covered total.statements) };

    fn fmt<W: fmt::Write>(&self, f: &mut fmt::Formatter<W>) -> fmt::Result {
        let Total {
            covered,
            statements,
        } = *self;
        write!(f, "covered {covered} of {statements} statements")
    }
}

/// Writes the end of a report in words: a line for each of these statements, how many of them were
/// put to the test, what wasn't judged, and the verdict's line. Each line is built in the buffer.
///
/// # Errors
///
/// `Write` if a write failed.
pub fn write_covered_ending<W: Write>(
    verdict: &Verdict,
    role: Role,
    rows: &[Covered],
    gaps: &[Gap],
    lines: &mut Lines,
    writer: &mut W,
) -> Result<(), RunFault>
    ensures ok { OnOk result (Appends (W.contents writer.old) (W.contents writer.new)
        (covered_ending role (length (map.entries verdict.now.faults)) verdict.now.events rows.now gaps.now)) }
    ensures write { IfErr result (λ fault. (fault ≡ RunFault.Write) × AppendsBeginning (W.contents writer.old) (W.contents writer.new)
        (covered_ending role (length (map.entries verdict.now.faults)) verdict.now.events rows.now gaps.now)) }
{
    write_coverage(rows, role, lines, writer)?;
    write_unjudged_ending(verdict, gaps, lines, writer)
}

// Writes a line for each of these statements, and how many of them were put to the test.
//
// Errors: `Write` if a write failed.
fn write_coverage<W: Write>(
    rows: &[Covered],
    role: Role,
    lines: &mut Lines,
    writer: &mut W,
) -> Result<(), RunFault>
    ensures ok { OnOk result (Appends (W.contents writer.old) (W.contents writer.new) (coverage_lines role rows.now)) }
    ensures write { IfErr result (λ fault. (fault ≡ RunFault.Write)
        × AppendsBeginning (W.contents writer.old) (W.contents writer.new) (coverage_lines role rows.now)) }
{
    write_rows(rows, role, lines, writer)?;
    let total = Total {
        covered: covered_count(rows),
        statements: rows.len(),
    };
    write_line(total, lines, writer)
}

// Writes a line for each of these statements.
//
// Errors: `Write` if a write failed.
fn write_rows<W: Write>(
    rows: &[Covered],
    role: Role,
    lines: &mut Lines,
    writer: &mut W,
) -> Result<(), RunFault>
    ensures ok { OnOk result (Appends (W.contents writer.old) (W.contents writer.new) (places_lines role rows.now)) }
    ensures write { IfErr result (λ fault. (fault ≡ RunFault.Write)
        × AppendsBeginning (W.contents writer.old) (W.contents writer.new) (places_lines role rows.now)) }
{
    for covered in rows {
        let row = Row {
            role,
            covered: *covered,
        };
        write_line(row, lines, writer)?;
    }
    Ok(())
}

// How many of these statements were put to the test.
fn covered_count(rows: &[Covered]) -> usize
    ensures { result ≡ covered_count rows.now }
{
    let mut count = 0;
    for covered in rows {
        if covered.places > 0 {
            count += 1;
        }
    }
    count
}
