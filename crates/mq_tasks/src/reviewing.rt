//! Showing a log with the faults at its events, and what each conflicts with. The log is read
//! twice, and once more if it has faults.
ghost use Rattle.std.specs.Prelude.{◌≡◌, ◌⊎◌, ◌==◌, false, Some, Ok, Err, IfErr, IfOk, IfSome, option_map, slice_index, string_bytes};
ghost use Rattle.std.specs.FinMap as map;
ghost use Rattle.std.specs.Io.KnownBytes.{Appends, Keeps, prepend_known};
ghost use Rattle.mq_log.specs.Events.{events};
ghost use Rattle.mq_report.specs.Stopping.{IsJudged};
ghost use Rattle.mq_command.specs.CommandLine.{path_named};
ghost use Rattle.mq_choice.specs.Choices.{in_choice, wants_further};
ghost use Rattle.mq_tasks.specs.Choosing.{chosen_as};
ghost use Rattle.mq_tasks.specs.Messages.{RefusesShow};
ghost use Rattle.mq_tasks.specs.Inquiring.{HasReleases};
ghost use Rattle.mq_tasks.specs.Program.{FailsBegun, FailsFile, FailsReaders, FailsReview, IsHinted, MisusesReview, PassesReview, RefusesReview};
ghost use Rattle.mq_tasks.specs.Lapses.{LacksReasons};
ghost use Rattle.mq_tasks.specs.Reviewing.{AreFoundReasons, IfAll, IsReviewed, RefusesPlan, StopsPlan, StopsShowing, count_of, plan_near, plan_of, plan_on, plan_view, text_with, unfaulty_line};
ghost use Rattle.mq_host.specs.Streams.{IsTold, misuse_line, stream};
ghost use Rattle.mq_host.specs.Troubles.{hint_line};

use crate::choosing::further_of;
use crate::inquiring::has_releases;
use crate::lapse::{Lapse, explain_again, tell_of_change};
use crate::tasks::{EventView, refuse, show_log};
use mq_choice::Choice;
use mq_command::{Review, path_named};
use mq_display::Extent;
use mq_host::{
    ErrorStream, FAILED, Failure, Host, MISUSED, Misuse, Noting, Output, PASSED, REFUSED, Trouble,
    give_hint, read_start,
};
use mq_judge::{Form, RunFault, Verdict, judge_reader};
use mq_rules::{Evidence, Further, Role, Tested};
use std::alloc::Global;
use std::io::{Read, Write};

/// What to show.
#[derive(Clone, Copy)]
pub struct Plan<'a> {
    /// The log's path.
    pub path: &'a str,
    /// How much of it is shown.
    pub extent: Extent,
    /// Which of the further statements are judged too.
    pub further: Further,
}

/// Shows a log with the faults at its events, and returns the status to exit with.
///
/// The file is read to find the faults; again, if there are any, to find what each conflicts with,
/// which has to give the same verdict; and to show the events. The line of each event is written to
/// `output`, and the faults at it after it, each with what it conflicts with: 0. If the log is
/// refused, only the line on the refusal is written, since nothing is known of its faults: 2. Words
/// that name no file, or no number after `--around`, or don't ask for faults are a misuse, which is
/// reported on `error`: 3. If reading or writing failed, memory ran out, or the file changed
/// between the first two readings, that is reported on `error`: 4; what was written until then is
/// part of what would have been, and nothing if the file changed. For a refused log whose first
/// bytes show that it is another kind of file, a line on `error` says what to do with it.
pub fn review<H: Host, W: Output, E: ErrorStream>(
    alloc: Global,
    host: &H,
    asked: &Review,
    output: &mut W,
    error: &mut E,
) -> u8
    ensures passed { result ≡ PASSED → PassesReview (H.gives host.now) asked.now (W.contents output.old) (W.contents output.new) }
    ensures refused { result ≡ REFUSED → RefusesReview (H.gives host.now) asked.now
        (W.contents output.old) (W.contents output.new) (stream E.contents E.has_failed error.old error.new) }
    ensures misused { result ≡ MISUSED → MisusesReview asked.now (E.contents error.old) (E.contents error.new) }
    ensures failed { result ≡ FAILED → FailsReview (H.gives host.now) asked.now (W.is_closed output.new)
        (W.contents output.old) (W.contents output.new) (stream E.contents E.has_failed error.old error.new) }
    ensures statuses { (result ≡ PASSED) ⊎ ((result ≡ REFUSED) ⊎ ((result ≡ MISUSED) ⊎ (result ≡ FAILED))) }
    ensures quiet { result ≡ PASSED → Keeps (E.contents error.old) (E.contents error.new) }
    ensures unprinted { result ≡ MISUSED → Keeps (W.contents output.old) (W.contents output.new) }
{
    match plan_of(asked) {
        Ok(plan) => show_file(alloc, host, plan, output, error),
        Err(misuse) => misuse.report(alloc, error),
    }
}

// What to show, or why there is nothing to show.
fn plan_of(asked: &Review) -> Result<Plan<'_>, Misuse<'_>>
    ensures ok { IfOk result (λ plan. plan_of asked.now ≡ Ok (plan_view plan)) }
    ensures err { IfErr result (λ why. plan_of asked.now ≡ Err (misuse_line why)) }
{
    if !asked.faults {
        return Err(unfaulty(&asked.around));
    }
    let further = further_of(asked.scope);
    match &asked.around {
        None => plan_on(&asked.file, None, asked.long, further),
        Some(word) => plan_near(&asked.file, word.as_str(), asked.long, further),
    }
}

// Why there is nothing to show if no faults are asked for: a number of positions, or else the
// further statements, need them.
fn unfaulty<'a>(around: &Option<String>) -> Misuse<'a>
    ensures { misuse_line result ≡ unfaulty_line (option_map string_bytes around.now) }
{
    match around {
        Some(_) => Misuse::NoFaults,
        None => Misuse::NoFaultsForAll,
    }
}

// What to show of the log in this file near the faults, or why there is nothing to show.
fn plan_near<'a>(
    file: &'a Option<String>,
    word: &'a str,
    long: bool,
    further: Further,
) -> Result<Plan<'a>, Misuse<'a>>
    ensures ok { IfOk result (λ plan. plan_near (path_named (option_map string_bytes file.now)) word.now (count_of word.now) long further ≡ Ok (plan_view plan)) }
    ensures err { IfErr result (λ why. plan_near (path_named (option_map string_bytes file.now)) word.now (count_of word.now) long further ≡ Err (misuse_line why)) }
{
    match count_of(word) {
        Some(count) => plan_on(file, Some(count), long, further),
        None => Err(Misuse::NoNumber(word)),
    }
}

// What to show of the log in this file, or why there is nothing to show.
fn plan_on<'a>(
    file: &'a Option<String>,
    around: Option<u32>,
    long: bool,
    further: Further,
) -> Result<Plan<'a>, Misuse<'a>>
    ensures ok { IfOk result (λ plan. plan_on (path_named (option_map string_bytes file.now)) around long further ≡ Ok (plan_view plan)) }
    ensures err { IfErr result (λ why. plan_on (path_named (option_map string_bytes file.now)) around long further ≡ Err (misuse_line why)) }
{
    match path_named(file) {
        Some(path) => Ok(Plan {
            path,
            extent: Extent { around, long },
            further,
        }),
        None => Err(Misuse::NoFile),
    }
}

// The number that a word spells, if it is one.
fn count_of(word: &str) -> Option<u32>
    ensures { result ≡ count_of word.now }
{
    word.parse::<u32>().ok()
}

// Opens the file three times and shows it, and returns the status.
fn show_file<H: Host, W: Output, E: ErrorStream>(
    alloc: Global,
    host: &H,
    plan: Plan<'_>,
    output: &mut W,
    error: &mut E,
) -> u8
    ensures passed { result ≡ PASSED → IfSome ((H.gives host.now).file plan.entry.path.now)
        (λ log. IsReviewed (plan_view plan.entry) log log log (W.contents output.old) (W.contents output.new)) }
    ensures refused { result ≡ REFUSED → IfSome ((H.gives host.now).file plan.entry.path.now)
        (λ log. RefusesPlan (plan_view plan.entry) log log log (W.contents output.old) (W.contents output.new)) }
    ensures hinted { result ≡ REFUSED → IsHinted ((H.gives host.now).file plan.entry.path.now)
        (stream E.contents E.has_failed error.old error.new) }
    ensures failed { result ≡ FAILED → FailsFile (H.gives host.now) (plan_view plan.entry) (W.is_closed output.new)
        (W.contents output.old) (W.contents output.new) (stream E.contents E.has_failed error.old error.new) }
    ensures statuses { (result ≡ PASSED) ⊎ ((result ≡ REFUSED) ⊎ (result ≡ FAILED)) }
    ensures quiet { result ≡ PASSED → Keeps (E.contents error.old) (E.contents error.new) }
{
    match host.open(plan.path) {
        Ok(judged) => match host.open(plan.path) {
            Ok(again) => match host.open(plan.path) {
                Ok(shown) => show_readers(alloc, plan, judged, again, shown, output, error),
                Err(trouble) => trouble.report(plan.path, output, error),
            },
            Err(trouble) => trouble.report(plan.path, output, error),
        },
        Err(trouble) => trouble.report(plan.path, output, error),
    }
}

// Judges the log from one reader, explains its faults by the next, shows the log from the last one,
// and returns the status.
fn show_readers<R: Read + Drop, W: Output, E: ErrorStream>(
    alloc: Global,
    plan: Plan<'_>,
    judged: R,
    again: R,
    shown: R,
    output: &mut W,
    error: &mut E,
) -> u8
    ensures passed { result ≡ PASSED → IfAll (R.remaining judged) (R.remaining again) (R.remaining shown)
        (λ first second third. IsReviewed (plan_view plan.entry) first second third (W.contents output.old) (W.contents output.new)) }
    ensures refused { result ≡ REFUSED → IfAll (R.remaining judged) (R.remaining again) (R.remaining shown)
        (λ first second third. RefusesPlan (plan_view plan.entry) first second third (W.contents output.old) (W.contents output.new)) }
    ensures hinted { result ≡ REFUSED → IsHinted (R.remaining judged) (stream E.contents E.has_failed error.old error.new) }
    ensures failed { result ≡ FAILED → FailsReaders (plan_view plan.entry) (R.remaining judged) (R.remaining again) (R.remaining shown) (W.is_closed output.new)
        (W.contents output.old) (W.contents output.new) (stream E.contents E.has_failed error.old error.new) }
    ensures statuses { (result ≡ PASSED) ⊎ ((result ≡ REFUSED) ⊎ (result ≡ FAILED)) }
    ensures quiet { result ≡ PASSED → Keeps (E.contents error.old) (E.contents error.new) }
{
    let mut judged = judged;
    match read_start(alloc, &mut judged) {
        Ok(start) => show_on(
            alloc,
            plan,
            start.as_slice(),
            judged,
            again,
            shown,
            output,
            error,
        ),
        Err(trouble) => trouble.report(plan.path, output, error),
    }
}

// Judges the log that begins with these bytes and goes on with what `judged` gives, explains its
// faults by the next one, shows the last one with them, and returns the status.
fn show_on<R: Read + Drop, W: Output, E: ErrorStream>(
    alloc: Global,
    plan: Plan<'_>,
    start: &[u8],
    judged: R,
    again: R,
    shown: R,
    output: &mut W,
    error: &mut E,
) -> u8
    ensures passed { result ≡ PASSED → HasReleases (slice_index start.now 6 == 1) (prepend_known start.now (R.remaining judged))
        → IfAll (prepend_known start.now (R.remaining judged)) (R.remaining again) (R.remaining shown)
        (λ first second third. IsReviewed (plan_view plan.entry) first second third (W.contents output.old) (W.contents output.new)) }
    ensures refused { result ≡ REFUSED → HasReleases (slice_index start.now 6 == 1) (prepend_known start.now (R.remaining judged))
        → IfAll (prepend_known start.now (R.remaining judged)) (R.remaining again) (R.remaining shown)
        (λ first second third. RefusesPlan (plan_view plan.entry) first second third (W.contents output.old) (W.contents output.new)) }
    ensures hinted { result ≡ REFUSED → IsTold (stream E.contents E.has_failed error.old error.new) (hint_line start.now) }
    ensures failed { result ≡ FAILED → HasReleases (slice_index start.now 6 == 1) (prepend_known start.now (R.remaining judged))
        → FailsBegun (plan_view plan.entry) (prepend_known start.now (R.remaining judged)) (R.remaining again) (R.remaining shown) (W.is_closed output.new)
        (W.contents output.old) (W.contents output.new) (stream E.contents E.has_failed error.old error.new) }
    ensures statuses { (result ≡ PASSED) ⊎ ((result ≡ REFUSED) ⊎ (result ≡ FAILED)) }
    ensures quiet { result ≡ PASSED → Keeps (E.contents error.old) (E.contents error.new) }
{
    let releases = has_releases(start);
    let mut judged = Noting::new(start.chain(judged));
    let mut again = Noting::new(again);
    let mut shown = Noting::new(shown);
    match show_reasoned(
        alloc,
        plan,
        releases,
        &mut judged,
        &mut again,
        &mut shown,
        output,
    ) {
        Ok(REFUSED) => {
            give_hint(start, error);
            REFUSED
        }
        Ok(status) => status,
        Err(Lapse::Changed) => tell_of_change(error),
        Err(Lapse::Failed(failure)) => {
            let reason = judged.reason().or(again.reason()).or(shown.reason());
            Trouble::of(failure, reason).report(plan.path, output, error)
        }
    }
}

/// Judges the log from one reader; if it has faults, reads the log from the next one for what each
/// conflicts with; shows the log from the last one with these; and returns the status: 0, or 2 for
/// a refused log. The three are one log, unless its file changed between the readings. `releases`
/// says what the header of the first one says of releases.
///
/// # Errors
///
/// `Changed` if the log that is read again is refused or gives another verdict: nothing was
/// written. `Failed` if reading or writing failed, or memory ran out.
pub fn show_reasoned<R: Read, S: Read, T: Read, W: Write>(
    alloc: Global,
    plan: Plan<'_>,
    releases: bool,
    judged: &mut R,
    again: &mut S,
    shown: &mut T,
    output: &mut W,
) -> Result<u8, Lapse>
    ensures passed { IfOk result (λ status. status ≡ PASSED → HasReleases releases (R.remaining judged.old)
        → IfAll (R.remaining judged.old) (S.remaining again.old) (T.remaining shown.old)
        (λ first second third. IsReviewed (plan_view plan.entry) first second third (W.contents output.old) (W.contents output.new))) }
    ensures refused { IfOk result (λ status. status ≡ REFUSED → HasReleases releases (R.remaining judged.old)
        → IfAll (R.remaining judged.old) (S.remaining again.old) (T.remaining shown.old)
        (λ first second third. RefusesPlan (plan_view plan.entry) first second third (W.contents output.old) (W.contents output.new))) }
    ensures stops { IfErr result (λ lapse. HasReleases releases (R.remaining judged.old)
        → IfAll (R.remaining judged.old) (S.remaining again.old) (T.remaining shown.old)
        (λ first second third. StopsPlan (plan_view plan.entry) lapse first second third
        (R.remaining judged.new) (S.remaining again.new) (T.remaining shown.new) (W.contents output.old) (W.contents output.new))) }
    ensures statuses { IfOk result (λ status. (status ≡ PASSED) ⊎ (status ≡ REFUSED)) }
{
    let choice = Choice::by(plan.further);
    match judge_reader(alloc, judged, choice) {
        Ok((verdict, role)) => {
            let tested = Tested {
                role,
                releases,
                further: choice.further(),
            };
            match reasons_for(alloc, tested, choice, &verdict, again) {
                Ok(reasons) => show_verdict(
                    alloc,
                    plan,
                    &verdict,
                    reasons.as_slice(),
                    role,
                    shown,
                    output,
                ),
                Err(lapse) => Err(lapse),
            }
        }
        Err(RunFault::Refused(refusal)) => match refuse(alloc, &refusal, Form::Text, output) {
            Ok(status) => Ok(status),
            Err(failure) => Err(Lapse::Failed(failure)),
        },
        Err(RunFault::Memory) => Err(Lapse::Failed(Failure::Memory)),
        Err(RunFault::Write) => Err(Lapse::Failed(Failure::Write)),
    }
}

// What each fault of a verdict conflicts with, by the log that a reader gives: that isn't read if
// there is no fault.
#[tactic(auto, using(crate::proofs::ReviewingLemmas::nothing_found, crate::proofs::ReviewingLemmas::those_found))]
fn reasons_for<S: Read>(
    alloc: Global,
    tested: Tested,
    choice: Choice,
    verdict: &Verdict,
    again: &mut S,
) -> Result<Vec<Evidence>, Lapse>
    requires { tested.further ≡ wants_further (in_choice choice) }
    ensures found { IfOk result (λ reasons. IfSome (S.remaining again.old)
        (λ log. AreFoundReasons (chosen_as choice) tested verdict.now.events (map.entries verdict.now.faults) log reasons.items)) }
    ensures lacking { IfErr result (λ lapse. IfSome (S.remaining again.old)
        (λ log. LacksReasons (chosen_as choice) tested verdict.now.events (map.entries verdict.now.faults) lapse log (S.remaining again.new))) }
    ensures faulty { IfErr result (λ lapse. (map.len verdict.now.faults == 0) ≡ false) }
{
    if verdict.faults.is_empty() {
        return Ok(Vec::new(alloc));
    }
    let reasons = explain_again(alloc, tested, choice, verdict, again)?;
    Ok(reasons)
}

// Shows a log with the faults of a verdict and what they conflict with, and returns the status.
fn show_verdict<T: Read, W: Write>(
    alloc: Global,
    plan: Plan<'_>,
    verdict: &Verdict,
    reasons: &[Evidence],
    role: Role,
    shown: &mut T,
    output: &mut W,
) -> Result<u8, Lapse>
    ensures passed { IfOk result (λ status. status ≡ PASSED → IfSome (T.remaining shown.old) (λ log. IsJudged log
        × Appends (W.contents output.old) (W.contents output.new) (text_with (plan_view plan.entry) role (map.entries verdict.now.faults) reasons.now log (events log)))) }
    ensures refused { IfOk result (λ status. status ≡ REFUSED → IfSome (T.remaining shown.old)
        (λ log. RefusesShow (text_with (plan_view plan.entry) role (map.entries verdict.now.faults) reasons.now log) log (W.contents output.old) (W.contents output.new))) }
    ensures stops { IfErr result (λ lapse. IfSome (T.remaining shown.old)
        (λ log. StopsShowing (text_with (plan_view plan.entry) role (map.entries verdict.now.faults) reasons.now log) lapse log (T.remaining shown.new)
        (W.contents output.old) (W.contents output.new))) }
    ensures statuses { IfOk result (λ status. (status ≡ PASSED) ⊎ (status ≡ REFUSED)) }
{
    let view = EventView::Faults {
        faults: &verdict.faults,
        reasons,
        role,
        extent: plan.extent,
    };
    match show_log(alloc, view, shown, output) {
        Ok(status) => Ok(status),
        Err(failure) => Err(Lapse::Failed(failure)),
    }
}
