//! A check that says what each fault conflicts with. It reads a log that has faults twice.
ghost use Rattle.std.specs.Prelude.{◌≡◌, ◌≤◌, ◌⊎◌, ◌==◌, Ok, Err, IfErr, IfOk, IfSome, OnOk, option_map, slice_index, string_bytes};
ghost use Rattle.std.specs.FinMap as map;
ghost use Rattle.std.specs.Io.KnownBytes.{Appends, Keeps, prepend_known};
ghost use Rattle.mq_report.specs.Report.{report_on};
ghost use Rattle.mq_tasks.specs.declared.lapse.Lapse.TheVariants as lapses;
ghost use Rattle.mq_tasks.specs.Messages.{RefusesCheck};
ghost use Rattle.mq_tasks.specs.Program.{FailsInquiry, FailsInquiryBegun, FailsInquiryFile, FailsInquiryReaders, FindsReasons, IsHinted, MisusesInquiry, PassesInquiry, RefusesInquiry};
ghost use Rattle.mq_tasks.specs.Inquiring.{HasReleases, IsExplained, IsPassed, IsReasoned, StopsExplaining, StopsInquiry, StopsReportBy, asked_of, failure_by, log_at};
ghost use Rattle.mq_choice.specs.Choices.{in_choice, wants_further};
ghost use Rattle.mq_command.specs.CommandLine.{path_named};
ghost use Rattle.mq_tasks.specs.Choosing.{chosen_as};
ghost use Rattle.mq_tasks.specs.Messages.{form_of};
ghost use Rattle.mq_tasks.specs.Reviewing.{IfBoth};
ghost use Rattle.mq_host.specs.Streams.{IsTold, misuse_line, stream};
ghost use Rattle.mq_host.specs.Troubles.{hint_line};

use crate::choosing::choice_for;
use crate::lapse::{Lapse, explain_again, tell_of_change};
use crate::tasks::{form_of, refuse, see_out};
use mq_choice::Choice;
use mq_command::{Inquiry, path_named};
use mq_host::{
    ErrorStream, FAILED, FAULTY, Failure, Host, MISUSED, Misuse, Noting, Output, PASSED, REFUSED,
    Trouble, give_hint, read_start,
};
use mq_judge::{Form, RunFault, Verdict, judge_reader};
use mq_report::{write_reasoned_report, write_report};
use mq_rules::{Role, Tested};
use std::alloc::Global;
use std::io::{Read, Write};

/// What is wanted of a log that is judged.
#[derive(Clone, Copy)]
pub struct Wanted {
    /// The form of the report.
    pub form: Form,
    /// The statements whose faults are reported.
    pub choice: Choice,
}

/// Judges a log, says what each fault conflicts with, and returns the status to exit with.
///
/// The report is written to `output`: 0 for no fault, 1 for faults, 2 for a refused log. If there
/// are faults the file is read a second time, and judged again: nothing is said unless it gives the
/// same verdict. Words that name no file, or ask for coverage too, are a misuse, which is reported
/// on `error`: 3. If reading or writing failed, memory ran out, or the file changed between the two
/// readings, that is reported on `error`: 4. For a refused log whose first bytes show that it is
/// another kind of file, a line on `error` says what to do with it.
pub fn inquire<H: Host, W: Output, E: ErrorStream>(
    alloc: Global,
    host: &H,
    asked: &Inquiry,
    output: &mut W,
    error: &mut E,
) -> u8
    ensures passed { result ≡ PASSED → PassesInquiry (H.gives host.now) asked.now (W.contents output.old) (W.contents output.new) }
    ensures faulty { result ≡ FAULTY → FindsReasons (H.gives host.now) asked.now (W.contents output.old) (W.contents output.new) }
    ensures refused { result ≡ REFUSED → RefusesInquiry (H.gives host.now) asked.now
        (W.contents output.old) (W.contents output.new) (stream E.contents E.has_failed error.old error.new) }
    ensures misused { result ≡ MISUSED → MisusesInquiry asked.now (E.contents error.old) (E.contents error.new) }
    ensures failed { result ≡ FAILED → FailsInquiry (H.gives host.now) asked.now (W.is_closed output.new)
        (W.contents output.old) (W.contents output.new) (stream E.contents E.has_failed error.old error.new) }
    ensures statuses { result ≤ 4 }
    ensures quiet { result ≤ 1 → Keeps (E.contents error.old) (E.contents error.new) }
    ensures unprinted { result ≡ MISUSED → Keeps (W.contents output.old) (W.contents output.new) }
{
    match asked_of(asked) {
        Ok((path, choice)) => {
            let wanted = Wanted {
                form: form_of(asked.form),
                choice,
            };
            inquire_file(alloc, host, path, wanted, output, error)
        }
        Err(misuse) => misuse.report(alloc, error),
    }
}

// The path of the log and the choice of statements, or why it isn't judged.
fn asked_of(asked: &Inquiry) -> Result<(&str, Choice), Misuse<'_>>
    ensures ok { IfOk result (λ answer. asked_of asked.now ≡ Ok (record { path = answer.0.now; choice = chosen_as answer.1 })) }
    ensures err { IfErr result (λ why. asked_of asked.now ≡ Err (misuse_line why)) }
{
    if asked.coverage {
        return Err(Misuse::TwoReports);
    }
    match choice_for(asked.scope, &asked.statements) {
        Ok(choice) => log_at(&asked.file, choice),
        Err(misuse) => Err(misuse),
    }
}

// The path of the log in this file and the choice, or why it isn't judged.
fn log_at(file: &Option<String>, choice: Choice) -> Result<(&str, Choice), Misuse<'_>>
    ensures ok { IfOk result (λ answer. log_at (chosen_as choice) (path_named (option_map string_bytes file.now)) ≡ Ok (record { path = answer.0.now; choice = chosen_as answer.1 })) }
    ensures err { IfErr result (λ why. log_at (chosen_as choice) (path_named (option_map string_bytes file.now)) ≡ Err (misuse_line why)) }
{
    match path_named(file) {
        Some(path) => Ok((path, choice)),
        None => Err(Misuse::NoFileForWhy),
    }
}

// Opens the file twice and judges it, and returns the status.
fn inquire_file<H: Host, W: Output, E: ErrorStream>(
    alloc: Global,
    host: &H,
    path: &str,
    wanted: Wanted,
    output: &mut W,
    error: &mut E,
) -> u8
    ensures passed { result ≡ PASSED → IfSome ((H.gives host.now).file path.now)
        (λ log. IsPassed (chosen_as wanted.choice) wanted.form log (W.contents output.old) (W.contents output.new)) }
    ensures faulty { result ≡ FAULTY → IfSome ((H.gives host.now).file path.now)
        (λ log. IsReasoned (chosen_as wanted.choice) wanted.form log log (W.contents output.old) (W.contents output.new)) }
    ensures refused { result ≡ REFUSED → IfSome ((H.gives host.now).file path.now)
        (λ log. RefusesCheck wanted.form log (W.contents output.old) (W.contents output.new)) }
    ensures hinted { result ≡ REFUSED → IsHinted ((H.gives host.now).file path.now)
        (stream E.contents E.has_failed error.old error.new) }
    ensures failed { result ≡ FAILED → FailsInquiryFile (H.gives host.now) path.now (chosen_as wanted.choice) wanted.form (W.is_closed output.new)
        (W.contents output.old) (W.contents output.new) (stream E.contents E.has_failed error.old error.new) }
    ensures statuses { (result ≤ 2) ⊎ (result ≡ FAILED) }
    ensures quiet { result ≤ 1 → Keeps (E.contents error.old) (E.contents error.new) }
{
    match host.open(path) {
        Ok(judged) => match host.open(path) {
            Ok(again) => inquire_readers(alloc, path, wanted, judged, again, output, error),
            Err(trouble) => trouble.report(path, output, error),
        },
        Err(trouble) => trouble.report(path, output, error),
    }
}

// Judges the log from one reader, explains its faults by the other, and returns the status.
fn inquire_readers<R: Read + Drop, W: Output, E: ErrorStream>(
    alloc: Global,
    path: &str,
    wanted: Wanted,
    judged: R,
    again: R,
    output: &mut W,
    error: &mut E,
) -> u8
    ensures passed { result ≡ PASSED → IfBoth (R.remaining judged) (R.remaining again)
        (λ first second. IsPassed (chosen_as wanted.choice) wanted.form first (W.contents output.old) (W.contents output.new)) }
    ensures faulty { result ≡ FAULTY → IfBoth (R.remaining judged) (R.remaining again)
        (λ first second. IsReasoned (chosen_as wanted.choice) wanted.form first second (W.contents output.old) (W.contents output.new)) }
    ensures refused { result ≡ REFUSED → IfBoth (R.remaining judged) (R.remaining again)
        (λ first second. RefusesCheck wanted.form first (W.contents output.old) (W.contents output.new)) }
    ensures hinted { result ≡ REFUSED → IsHinted (R.remaining judged) (stream E.contents E.has_failed error.old error.new) }
    ensures failed { result ≡ FAILED → FailsInquiryReaders path.now (chosen_as wanted.choice) wanted.form (R.remaining judged) (R.remaining again) (W.is_closed output.new)
        (W.contents output.old) (W.contents output.new) (stream E.contents E.has_failed error.old error.new) }
    ensures statuses { (result ≤ 2) ⊎ (result ≡ FAILED) }
    ensures quiet { result ≤ 1 → Keeps (E.contents error.old) (E.contents error.new) }
{
    let mut judged = judged;
    match read_start(alloc, &mut judged) {
        Ok(start) => inquire_on(
            alloc,
            path,
            wanted,
            start.as_slice(),
            judged,
            again,
            output,
            error,
        ),
        Err(trouble) => trouble.report(path, output, error),
    }
}

// Judges the log that begins with these bytes and goes on with what `judged` gives, explains its
// faults by the other one, and returns the status.
fn inquire_on<R: Read + Drop, W: Output, E: ErrorStream>(
    alloc: Global,
    path: &str,
    wanted: Wanted,
    start: &[u8],
    judged: R,
    again: R,
    output: &mut W,
    error: &mut E,
) -> u8
    ensures passed { result ≡ PASSED → IfBoth (prepend_known start.now (R.remaining judged)) (R.remaining again)
        (λ first second. IsPassed (chosen_as wanted.choice) wanted.form first (W.contents output.old) (W.contents output.new)) }
    ensures faulty { result ≡ FAULTY → HasReleases (slice_index start.now 6 == 1) (prepend_known start.now (R.remaining judged))
        → IfBoth (prepend_known start.now (R.remaining judged)) (R.remaining again)
        (λ first second. IsReasoned (chosen_as wanted.choice) wanted.form first second (W.contents output.old) (W.contents output.new)) }
    ensures refused { result ≡ REFUSED → IfBoth (prepend_known start.now (R.remaining judged)) (R.remaining again)
        (λ first second. RefusesCheck wanted.form first (W.contents output.old) (W.contents output.new)) }
    ensures hinted { result ≡ REFUSED → IsTold (stream E.contents E.has_failed error.old error.new) (hint_line start.now) }
    ensures failed { result ≡ FAILED → HasReleases (slice_index start.now 6 == 1) (prepend_known start.now (R.remaining judged))
        → FailsInquiryBegun path.now (chosen_as wanted.choice) wanted.form (prepend_known start.now (R.remaining judged)) (R.remaining again) (W.is_closed output.new)
        (W.contents output.old) (W.contents output.new) (stream E.contents E.has_failed error.old error.new) }
    ensures statuses { (result ≤ 2) ⊎ (result ≡ FAILED) }
    ensures quiet { result ≤ 1 → Keeps (E.contents error.old) (E.contents error.new) }
{
    let releases = has_releases(start);
    let mut judged = Noting::new(start.chain(judged));
    let mut again = Noting::new(again);
    match inquire_twice(alloc, wanted, releases, &mut judged, &mut again, output) {
        Ok(REFUSED) => {
            give_hint(start, error);
            REFUSED
        }
        Ok(status) => status,
        Err(Lapse::Changed) => tell_of_change(error),
        Err(Lapse::Failed(failure)) => {
            Trouble::of(failure, judged.reason().or(again.reason())).report(path, output, error)
        }
    }
}

/// Whether the header that these bytes begin with says that releases are recorded.
pub fn has_releases(start: &[u8]) -> bool
    ensures { result ≡ (slice_index start.now 6 == 1) }
{
    match start.get(6) {
        Some(flags) => *flags == 1,
        None => false,
    }
}

/// Judges the log from one reader, explains the faults that were found by the log from the other,
/// and returns the status: 0 for no fault, 1 for faults, 2 for a refused log. The two are one log,
/// unless its file changed between the readings. `releases` says what the header of the first one
/// says of releases.
///
/// # Errors
///
/// `Changed` if the other log is refused or gives another verdict: nothing was written. `Failed` if
/// reading or writing failed, or memory ran out.
pub fn inquire_twice<R: Read, S: Read, W: Write>(
    alloc: Global,
    wanted: Wanted,
    releases: bool,
    judged: &mut R,
    again: &mut S,
    output: &mut W,
) -> Result<u8, Lapse>
    ensures passed { IfOk result (λ status. status ≡ PASSED → IfBoth (R.remaining judged.old) (S.remaining again.old)
        (λ first second. IsPassed (chosen_as wanted.choice) wanted.form first (W.contents output.old) (W.contents output.new))) }
    ensures faulty { IfOk result (λ status. status ≡ FAULTY → HasReleases releases (R.remaining judged.old)
        → IfBoth (R.remaining judged.old) (S.remaining again.old)
        (λ first second. IsReasoned (chosen_as wanted.choice) wanted.form first second (W.contents output.old) (W.contents output.new))) }
    ensures refused { IfOk result (λ status. status ≡ REFUSED → IfBoth (R.remaining judged.old) (S.remaining again.old)
        (λ first second. RefusesCheck wanted.form first (W.contents output.old) (W.contents output.new))) }
    ensures stops { IfErr result (λ lapse. HasReleases releases (R.remaining judged.old)
        → IfBoth (R.remaining judged.old) (S.remaining again.old)
        (λ first second. StopsInquiry (chosen_as wanted.choice) wanted.form lapse first second (R.remaining judged.new) (S.remaining again.new)
        (W.contents output.old) (W.contents output.new))) }
    ensures statuses { IfOk result (λ status. status ≤ REFUSED) }
{
    match judge_reader(alloc, judged, wanted.choice) {
        Ok((verdict, role)) => {
            if verdict.faults.is_empty() {
                return pass(alloc, &verdict, role, wanted.form, output);
            }
            let tested = Tested {
                role,
                releases,
                further: wanted.choice.further(),
            };
            explain(alloc, &verdict, tested, wanted, again, output)
        }
        Err(RunFault::Refused(refusal)) => match refuse(alloc, &refusal, wanted.form, output) {
            Ok(status) => Ok(status),
            Err(failure) => Err(Lapse::Failed(failure)),
        },
        Err(RunFault::Memory) => Err(Lapse::Failed(Failure::Memory)),
        Err(RunFault::Write) => Err(Lapse::Failed(Failure::Write)),
    }
}

// Writes the report on a verdict without faults, and returns the status.
fn pass<W: Write>(
    alloc: Global,
    verdict: &Verdict,
    role: Role,
    form: Form,
    output: &mut W,
) -> Result<u8, Lapse>
    ensures status { IfOk result (λ status. status ≡ PASSED) }
    ensures passed { OnOk result (Appends (W.contents output.old) (W.contents output.new)
        (report_on form role (map.entries verdict.now.faults) verdict.now.events)) }
    ensures stops { IfErr result (StopsReportBy form (report_on form role (map.entries verdict.now.faults) verdict.now.events)
        (W.contents output.old) (W.contents output.new)) }
{
    match write_report(alloc, verdict, role, form, output) {
        Ok(()) => end_with(PASSED, output),
        Err(fault) => Err(Lapse::Failed(failure_of(fault))),
    }
}

// Explains the faults of a verdict by the log that a reader gives, writes the report, and returns
// the status.
#[tactic(auto, using(crate::proofs::InquiringLemmas::lacks_explaining))]
fn explain<S: Read, W: Write>(
    alloc: Global,
    verdict: &Verdict,
    tested: Tested,
    wanted: Wanted,
    again: &mut S,
    output: &mut W,
) -> Result<u8, Lapse>
    requires { tested.further ≡ wants_further (in_choice wanted.choice) }
    ensures status { IfOk result (λ status. status ≡ FAULTY) }
    ensures faulty { OnOk result (IfSome (S.remaining again.old)
        (λ log. IsExplained (chosen_as wanted.choice) wanted.form tested verdict.now.events (map.entries verdict.now.faults) log (W.contents output.old) (W.contents output.new))) }
    ensures stops { IfErr result (λ lapse. IfSome (S.remaining again.old)
        (λ log. StopsExplaining (chosen_as wanted.choice) wanted.form tested verdict.now.events (map.entries verdict.now.faults) lapse log (S.remaining again.new)
        (W.contents output.old) (W.contents output.new))) }
{
    let reasons = explain_again(alloc, tested, wanted.choice, verdict, again)?;
    match write_reasoned_report(
        alloc,
        verdict,
        tested.role,
        reasons.as_slice(),
        wanted.form,
        output,
    ) {
        Ok(()) => end_with(FAULTY, output),
        Err(fault) => Err(Lapse::Failed(failure_of(fault))),
    }
}

// Flushes what was written, and returns the status.
fn end_with<W: Write>(status: u8, output: &mut W) -> Result<u8, Lapse>
    ensures status { IfOk result (λ given. given ≡ status) }
    ensures kept { Keeps (W.contents output.old) (W.contents output.new) }
    ensures failed { IfErr result (λ lapse. lapse ≡ lapses.Failed Failure.Write) }
{
    match see_out(status, output) {
        Ok(status) => Ok(status),
        Err(failure) => Err(Lapse::Failed(failure)),
    }
}

// What failed if a report wasn't written.
fn failure_of(fault: RunFault) -> Failure
    ensures { result ≡ failure_by fault }
{
    match fault {
        RunFault::Refused(_) => Failure::Write,
        RunFault::Write => Failure::Write,
        RunFault::Memory => Failure::Memory,
    }
}
