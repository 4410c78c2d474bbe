//! Judges a log from a reader, and writes the report on it.
ghost use Rattle.std.specs.Prelude.{◌≡◌, ◌*◌, ◌==◌, true, false, ℕ, List, IfErr, IfOk, IfSome, Err, if◌then◌else◌};
ghost use Rattle.std.specs.FinMap as map;
ghost use Rattle.mq_report.specs.declared.report.RunFault.TheVariants as run_faults;
ghost use Rattle.mq_log.specs.declared.refusal.Refusal.{Refusal as AnyRefusal};
ghost use Rattle.mq_trace.specs.Feeding.{TakesAtMost};
ghost use Rattle.mq_judge.specs.Coverage.{coverage_of};
ghost use Rattle.mq_judge.specs.Unjudged.{unjudged_of};
ghost use Rattle.mq_choice.specs.Choices.{chosen_in, in_choice, is_listed, wants_further};
ghost use Rattle.mq_judge.specs.Judging.{AreFaultsOf};
ghost use Rattle.mq_judge.specs.Runner.{FindsOver, JudgesOver, RunsOver, RunsCoveredOver};
ghost use Rattle.mq_report.specs.Stopping.{default_limit};
ghost use Rattle.mq_judge.specs.Telling.{IsToldOf, IsToldOfRun, IsJudgedFor, Said};

use super::judge::{CoveredVerdict, Judge, Options};
use super::progress::Progress;
use super::telling::{Before, Telling};
use mq_choice::{Choice, drop_others};
use mq_log::Refusal;
use mq_report::{
    DEFAULT_LIMIT, Form, Outcome, RunFault, Verdict, feed_log, write_covered_report, write_report,
};
use mq_rules::{Further, Memory, Role};
use std::alloc::Global;
use std::io::{Read, Write};
use std::marker::Brand;

/// Judges the log that a reader gives, and writes the report on the faults of the chosen statements
/// in this form. It is `run_bounded` with 4,294,967,295 turns.
///
/// # Errors
///
/// As `run_bounded`.
///
/// # Examples
///
/// ```
/// let log = b"MQTR\x01\x00\x01\x00\x01\x00\x00\x00\x00";
/// let mut report = Vec::new(rt.alloc());
/// let outcome = run(rt.alloc(), &mut log.as_slice(), &mut report, Form::Text, Choice::Usual)?;
/// assert_eq!(rt; outcome, Outcome::Pass);
/// assert_eq!(rt; report.as_slice(), b"pass 1 events\n".as_slice());
/// ```
pub fn run<R: Read, W: Write>(
    alloc: Global,
    reader: &mut R,
    writer: &mut W,
    form: Form,
    choice: Choice,
) -> Result<Outcome, RunFault>
    ensures runs { IfSome (R.remaining reader.old) (λ log. RunsOver choice form log (R.remaining reader.new) result (W.contents writer.old) (W.contents writer.new)) }
    ensures unwritten { (refusal : AnyRefusal) → result ≡ Err (run_faults.Refused refusal) → writer.new ≡ writer.old }
{
    run_bounded(alloc, reader, writer, form, choice, u32::MAX)
}

/// Judges the log that a reader gives, and writes the report, as `run` does. After each turn it
/// tells `progress` how many bytes the turn gave, and how many faults are known, until the log is
/// refused; and then, in each case, that it has come to the end.
///
/// # Errors
///
/// As `run_bounded`.
pub fn run_watched<R: Read, W: Write, P: Progress>(
    alloc: Global,
    reader: &mut R,
    writer: &mut W,
    form: Form,
    choice: Choice,
    progress: &mut P,
) -> Result<Outcome, RunFault>
    ensures runs { IfSome (R.remaining reader.old) (λ log. RunsOver choice form log (R.remaining reader.new) result (W.contents writer.old) (W.contents writer.new)) }
    ensures unwritten { (refusal : AnyRefusal) → result ≡ Err (run_faults.Refused refusal) → writer.new ≡ writer.old }
    ensures told { IsToldOfRun (wants_further (in_choice choice)) result (R.remaining reader.old) (P.told progress.old) (P.told progress.new) }
{
    run_all(alloc, reader, writer, form, choice, u32::MAX, progress)
}

/// Judges the log that a reader gives, and writes the report on the faults of the chosen statements
/// in this form. The further statements are judged too if one of them is chosen. It reads at most
/// `turns` times, counting interrupted reads, and at most 8,192 bytes each time.
///
/// # Errors
///
/// `Refused` if the log is refused, if the reader fails or hasn't ended after `turns` reads
/// (refusal 15), or if the judge has no memory (refusal 16). Nothing was then written. `Write` if a
/// write failed. A beginning of the report, but not all of it, was then written. `Memory` if there
/// is no memory for a report as JSON, or for the faults of the statements that are listed. Nothing
/// was then written.
pub fn run_bounded<R: Read, W: Write>(
    alloc: Global,
    reader: &mut R,
    writer: &mut W,
    form: Form,
    choice: Choice,
    turns: u32,
) -> Result<Outcome, RunFault>
    ensures runs { IfSome (R.remaining reader.old) (λ log. RunsOver choice form log (R.remaining reader.new) result (W.contents writer.old) (W.contents writer.new)) }
    ensures unwritten { (refusal : AnyRefusal) → result ≡ Err (run_faults.Refused refusal) → writer.new ≡ writer.old }
    ensures few { TakesAtMost (8192 * turns) (R.remaining reader.old) (R.remaining reader.new) }
{
    run_all(alloc, reader, writer, form, choice, turns, &mut ())
}

// Judges the log that a reader gives in at most `turns` turns, telling `progress` how far it is,
// and writes the report.
fn run_all<R: Read, W: Write, P: Progress>(
    alloc: Global,
    reader: &mut R,
    writer: &mut W,
    form: Form,
    choice: Choice,
    turns: u32,
    progress: &mut P,
) -> Result<Outcome, RunFault>
    ensures runs { IfSome (R.remaining reader.old) (λ log. RunsOver choice form log (R.remaining reader.new) result (W.contents writer.old) (W.contents writer.new)) }
    ensures unwritten { (refusal : AnyRefusal) → result ≡ Err (run_faults.Refused refusal) → writer.new ≡ writer.old }
    ensures told { IsToldOfRun (wants_further (in_choice choice)) result (R.remaining reader.old) (P.told progress.old) (P.told progress.new) }
    ensures few { TakesAtMost (8192 * turns) (R.remaining reader.old) (R.remaining reader.new) }
{
    let judged = judge_bounded(alloc, reader, choice, turns, progress);
    progress.end();
    let (found, role) = judged?;
    let verdict = choose(alloc, found, choice)?;
    write_report(alloc, &verdict, role, form, writer)?;
    Ok(outcome(&verdict))
}

/// Judges the log that a reader gives, and returns the verdict on it, with the faults of the chosen
/// statements, and the role of the end that was judged. It reads at most 4,294,967,295 times, and
/// at most 8,192 bytes each time.
///
/// # Errors
///
/// `Refused` if the log is refused, if the reader fails or hasn't ended after the last turn, or if
/// the judge has no memory; `Memory` if there is no memory for the faults of the statements that
/// are listed.
///
/// # Examples
///
/// ```
/// let nested = b"MQTR\x01\x00\x01\x00\x01\x00\x00\x00\x00\x01";
/// let refused = judge_reader(rt.alloc(), &mut nested.as_slice(), Choice::Usual);
/// assert!(rt; matches!(refused, Err(RunFault::Refused(Refusal::Nested(13)))));
/// ```
pub fn judge_reader<R: Read>(
    alloc: Global,
    reader: &mut R,
    choice: Choice,
) -> Result<(Verdict, Role), RunFault>
    ensures { IfSome (R.remaining reader.old) (λ log. JudgesOver choice log (R.remaining reader.new) result) }
{
    let (found, role) = judge_bounded(alloc, reader, choice, u32::MAX, &mut ())?;
    let verdict = choose(alloc, found, choice)?;
    Ok((verdict, role))
}

// The verdict by the chosen statements, of one by all that are judged.
//
// Errors: `Memory` if there is no memory for the faults of the statements that are listed.
fn choose(alloc: Global, found: Verdict, choice: Choice) -> Result<Verdict, RunFault>
    ensures events { IfOk result (λ verdict. verdict.events ≡ found.events) }
    ensures faults { IfOk result (λ verdict. (log : List ℕ) → AreFaultsOf (wants_further (in_choice choice)) log found.faults → map.entries verdict.faults ≡ chosen_in (in_choice choice) log) }
    ensures memory { IfErr result (λ fault. (fault ≡ run_faults.Memory) × (is_listed choice ≡ true)) }
{
    let Verdict { events, faults } = found;
    match drop_others(alloc, faults, choice) {
        Ok(faults) => Ok(Verdict { events, faults }),
        Err(Memory) => Err(RunFault::Memory),
    }
}

// Judges the log that a reader gives in at most `turns` turns, telling `progress` how far it is,
// and returns what is found and the role.
fn judge_bounded<R: Read, P: Progress>(
    alloc: Global,
    reader: &mut R,
    choice: Choice,
    turns: u32,
    progress: &mut P,
) -> Result<(Verdict, Role), Refusal>
    ensures judges { IfSome (R.remaining reader.old) (λ log. FindsOver (wants_further (in_choice choice)) (λ v. v.events) (λ v. v.faults) log (R.remaining reader.new) result) }
    ensures told { IsToldOf (wants_further (in_choice choice)) (IsJudgedFor result) (R.remaining reader.old) (P.told progress.old) (P.told progress.new) }
    ensures few { TakesAtMost (8192 * turns) (R.remaining reader.old) (R.remaining reader.new) }
{
    judge_telling::<R, P, Brand>(alloc, reader, choice, turns, progress)
}

// Judges as `judge_bounded` does, and tells it to whoever had been told what was picked.
fn judge_telling<R: Read, P: Progress, K: Before>(
    alloc: Global,
    reader: &mut R,
    choice: Choice,
    turns: u32,
    progress: &mut P,
) -> Result<(Verdict, Role), Refusal>
    requires told { (before : List Said) → K.told before → P.told progress.old before }
    requires counting { K.counting ≡ false }
    requires further { K.further ≡ wants_further (in_choice choice) }
    ensures judges { IfSome (R.remaining reader.old) (λ log. FindsOver (wants_further (in_choice choice)) (λ v. v.events) (λ v. v.faults) log (R.remaining reader.new) result) }
    ensures told { IsToldOf K.further (IsJudgedFor result) (R.remaining reader.old) K.told (P.told progress.new) }
    ensures few { TakesAtMost (8192 * turns) (R.remaining reader.old) (R.remaining reader.new) }
{
    let judge = Judge::new(alloc, options(choice.further()));
    let mut telling = Telling::<K>::new(judge);
    let mut buffer = [0; 8192];
    feed_log(&mut telling, progress, reader, &mut buffer, turns)?;
    let judge = telling.into_judge();
    judge.finish_with_role()
}

/// Judges the log that a reader gives, as `run_watched` does, and says in the report how often each
/// statement was put to the test, and what wasn't judged.
///
/// # Errors
///
/// As `run_watched`. `Memory` also if there is no memory to list the statements, or what wasn't
/// judged, in each form.
pub fn run_covered<R: Read, W: Write, P: Progress>(
    alloc: Global,
    reader: &mut R,
    writer: &mut W,
    form: Form,
    choice: Choice,
    progress: &mut P,
) -> Result<Outcome, RunFault>
    ensures runs { IfSome (R.remaining reader.old) (λ log. RunsCoveredOver (in_choice choice) form log (R.remaining reader.new) result (W.contents writer.old) (W.contents writer.new)) }
    ensures unwritten { (refusal : AnyRefusal) → result ≡ Err (run_faults.Refused refusal) → writer.new ≡ writer.old }
    ensures told { IsToldOfRun (wants_further (in_choice choice)) result (R.remaining reader.old) (P.told progress.old) (P.told progress.new) }
{
    let judged = judge_covered(alloc, reader, choice, progress);
    progress.end();
    let (covered, role) = judged?;
    let CoveredVerdict {
        verdict: found,
        rows,
        gaps,
    } = covered;
    let Some(rows) = rows else {
        return Err(RunFault::Memory);
    };
    let Some(gaps) = gaps else {
        return Err(RunFault::Memory);
    };
    let verdict = choose(alloc, found, choice)?;
    write_covered_report(alloc, &verdict, role, &rows, &gaps, form, writer)?;
    Ok(outcome(&verdict))
}

// Judges the log that a reader gives, counting places, and telling `progress` how far it is.
fn judge_covered<R: Read, P: Progress>(
    alloc: Global,
    reader: &mut R,
    choice: Choice,
    progress: &mut P,
) -> Result<(CoveredVerdict, Role), Refusal>
    ensures judges { IfSome (R.remaining reader.old) (λ log. FindsOver (wants_further (in_choice choice)) (λ v. v.verdict.events) (λ v. v.verdict.faults) log (R.remaining reader.new) result) }
    ensures rows { IfSome (R.remaining reader.old) (λ log. IfOk result (λ answer. IfSome answer.0.rows (λ rows. rows.items ≡ coverage_of (in_choice choice) log))) }
    ensures gaps { IfSome (R.remaining reader.old) (λ log. IfOk result (λ answer. IfSome answer.0.gaps (λ gaps. gaps.items ≡ unjudged_of (wants_further (in_choice choice)) log))) }
    ensures told { IsToldOf (wants_further (in_choice choice)) (IsJudgedFor result) (R.remaining reader.old) (P.told progress.old) (P.told progress.new) }
{
    cover_telling::<R, P, Brand>(alloc, reader, choice, progress)
}

// Judges as `judge_covered` does, and tells it to whoever had been told what was picked.
fn cover_telling<R: Read, P: Progress, K: Before>(
    alloc: Global,
    reader: &mut R,
    choice: Choice,
    progress: &mut P,
) -> Result<(CoveredVerdict, Role), Refusal>
    requires told { (before : List Said) → K.told before → P.told progress.old before }
    requires counting { K.counting ≡ true }
    requires further { K.further ≡ wants_further (in_choice choice) }
    ensures judges { IfSome (R.remaining reader.old) (λ log. FindsOver (wants_further (in_choice choice)) (λ v. v.verdict.events) (λ v. v.verdict.faults) log (R.remaining reader.new) result) }
    ensures rows { IfSome (R.remaining reader.old) (λ log. IfOk result (λ answer. IfSome answer.0.rows (λ rows. rows.items ≡ coverage_of (in_choice choice) log))) }
    ensures gaps { IfSome (R.remaining reader.old) (λ log. IfOk result (λ answer. IfSome answer.0.gaps (λ gaps. gaps.items ≡ unjudged_of (wants_further (in_choice choice)) log))) }
    ensures told { IsToldOf K.further (IsJudgedFor result) (R.remaining reader.old) K.told (P.told progress.new) }
{
    let judge = Judge::counting(alloc, options(choice.further()));
    let mut telling = Telling::<K>::new(judge);
    let mut buffer = [0; 8192];
    feed_log(&mut telling, progress, reader, &mut buffer, u32::MAX)?;
    let judge = telling.into_judge();
    judge.finish_covered(alloc, choice)
}

// The options of a run: the default ones, but for which further statements are judged too.
fn options(further: Further) -> Options
    ensures limit { result.limit ≡ default_limit }
    ensures further { result.further ≡ further }
{
    Options {
        limit: DEFAULT_LIMIT,
        further,
    }
}

// The outcome of a report on a verdict.
fn outcome(verdict: &Verdict) -> Outcome
    ensures { result ≡ (if map.len verdict.now.faults == 0 then Outcome.Pass else Outcome.Fail) }
{
    if verdict.faults.is_empty() {
        Outcome::Pass
    } else {
        Outcome::Fail
    }
}
