//! Reports in short: a line for each statement that has faults.
ghost use Rattle.std.specs.Prelude.{◌≡◌, length, Some, IfErr, OnOk};
ghost use Rattle.std.specs.FinMap as map;
ghost use Rattle.std.specs.Io.KnownBytes.{Appends};
ghost use Rattle.mq_trace.specs.Writing.{AppendsBeginning};
ghost use Rattle.mq_report.specs.declared.report.Form.TheVariants.{Summary};
ghost use Rattle.mq_report.specs.declared.report.RunFault.TheVariants as run_faults;
ghost use Rattle.mq_report.specs.Report.{faults_of, first_fault_of, rule_text, rule_line, rule_lines, report_on};
ghost use Rattle.mq_report.specs.Coverage.{covered_report_on};

use super::super::lines::Lines;
use super::coverage::{Covered, write_covered_ending};
use super::line::write_line;
use super::unjudged::Gap;
use super::{RunFault, Verdict, write_verdict};
use mq_rules::{Fault, FaultKey, Faults, Role, Rule};
use std::fmt;
use std::io::Write;

/// The faults of a statement: how many there are, and the first one.
struct Tally {
    count: usize,
    first: Option<(FaultKey, Fault)>,
}

/// A statement that has faults, as a report in short shows it.
#[derive(Clone, Copy)]
struct Broken {
    role: Role,
    rule: Rule,
    count: usize,
    key: FaultKey,
    fault: Fault,
}

impl fmt::Display for Broken {
    ghost output = { λ broken. Some (rule_text broken.role broken.rule broken.count broken.key broken.fault) };

    fn fmt<W: fmt::Write>(&self, f: &mut fmt::Formatter<W>) -> fmt::Result {
        let code = self.rule.code();
        let citation = self.rule.citation(self.role);
        let count = self.count;
        let position = self.key.position;
        let record_no = self.fault.record_no;
        write!(
            f,
            "{code} {citation} faults {count} first {position} record {record_no}"
        )
    }
}

/// Writes the report in short on a verdict for an end in this role: a line for each statement that
/// has faults, in the order of the statements, and a last line as in the form `Text`. It takes no
/// memory.
///
/// # Errors
///
/// `Write` if a write failed: the writer returned an error, also one for an interruption, or took
/// no byte. A beginning of the report, but not all of it, was then written.
pub fn write_summary<W: Write>(
    verdict: &Verdict,
    role: Role,
    writer: &mut W,
) -> Result<(), RunFault>
    ensures ok { OnOk result (Appends (W.contents writer.old) (W.contents writer.new)
        (report_on Summary role (map.entries verdict.now.faults) verdict.now.events)) }
    ensures write { IfErr result (λ fault. (fault ≡ run_faults.Write) × AppendsBeginning (W.contents writer.old) (W.contents writer.new)
        (report_on Summary role (map.entries verdict.now.faults) verdict.now.events)) }
{
    write_rules(Rule::all(), &verdict.faults, role, writer)?;
    write_verdict(verdict, &mut Lines::new(), writer)
}

/// Writes the report in short on a verdict for an end in this role, as `write_summary` does, but
/// before the last line also how often each of these statements was put to the test, and these
/// gaps. It takes no memory.
///
/// # Errors
///
/// As `write_summary`.
pub fn write_covered_summary<W: Write>(
    verdict: &Verdict,
    role: Role,
    rows: &[Covered],
    gaps: &[Gap],
    writer: &mut W,
) -> Result<(), RunFault>
    ensures ok { OnOk result (Appends (W.contents writer.old) (W.contents writer.new)
        (covered_report_on Summary role (map.entries verdict.now.faults) verdict.now.events rows.now gaps.now)) }
    ensures write { IfErr result (λ fault. (fault ≡ run_faults.Write) × AppendsBeginning (W.contents writer.old) (W.contents writer.new)
        (covered_report_on Summary role (map.entries verdict.now.faults) verdict.now.events rows.now gaps.now)) }
{
    write_rules(Rule::all(), &verdict.faults, role, writer)?;
    write_covered_ending(verdict, role, rows, gaps, &mut Lines::new(), writer)
}

// Writes a line for each of these statements that has faults.
//
// Errors: `Write` if a write failed.
fn write_rules<W: Write>(
    rules: &[Rule],
    faults: &Faults,
    role: Role,
    writer: &mut W,
) -> Result<(), RunFault>
    ensures ok { OnOk result (Appends (W.contents writer.old) (W.contents writer.new) (rule_lines role (map.entries faults.now) rules.now)) }
    ensures write { IfErr result (λ fault. (fault ≡ run_faults.Write)
        × AppendsBeginning (W.contents writer.old) (W.contents writer.new) (rule_lines role (map.entries faults.now) rules.now)) }
{
    for rule in rules {
        write_rule(*rule, faults, role, writer)?;
    }
    Ok(())
}

// Writes the line of a statement, if it has faults.
//
// Errors: `Write` if a write failed.
fn write_rule<W: Write>(
    rule: Rule,
    faults: &Faults,
    role: Role,
    writer: &mut W,
) -> Result<(), RunFault>
    ensures ok { OnOk result (Appends (W.contents writer.old) (W.contents writer.new) (rule_line role rule (faults_of rule (map.entries faults.now)))) }
    ensures write { IfErr result (λ fault. (fault ≡ run_faults.Write)
        × AppendsBeginning (W.contents writer.old) (W.contents writer.new) (rule_line role rule (faults_of rule (map.entries faults.now)))) }
{
    let Tally { count, first } = tally_of(rule, faults);
    match first {
        Some((key, fault)) => {
            let broken = Broken {
                role,
                rule,
                count,
                key,
                fault,
            };
            write_line(broken, &mut Lines::new(), writer)
        }
        None => Ok(()),
    }
}

// Counts the faults of a statement: all faults minus those of other statements.
fn tally_of(rule: Rule, faults: &Faults) -> Tally
    ensures count { result.count ≡ length (faults_of rule (map.entries faults.now)) }
    ensures first { result.first ≡ first_fault_of (faults_of rule (map.entries faults.now)) }
{
    let mut count = faults.len();
    let mut first = None;
    for (key, fault) in faults.iter() {
        if key.rule == rule {
            first = first.or(Some((*key, *fault)));
        } else {
            count -= 1;
        }
    }
    Tally { count, first }
}
