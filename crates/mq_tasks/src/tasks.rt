//! Doing what a command line asks for.
ghost use Rattle.std.specs.Prelude.{◌≡◌, ◌≤◌, ◌↔◌, ◌⊎◌, ℕ, true, List, [], None, Some, Option, String, IfErr, IfOk, IfSome, IsSome, OnOk, Err, option_map, string_bytes, unwrap_or};
ghost use Rattle.std.specs.Io.KnownBytes.{Appends, Keeps};
ghost use Rattle.mq_explain.specs.Citing.{explained_for, if_some};
ghost use Rattle.mq_explain.specs.Listing.{listed_for, statement_lines};
ghost use Rattle.mq_command.specs.Digits.{OfDigits};
ghost use Rattle.mq_tasks.specs.Messages.{AppendsReportOf, BeginsRefusal, HasFailed, HasPassed, IsOfLog, IsPrintedOn, IsRefusedOn, IsReportedOn};
ghost use Rattle.mq_tasks.specs.Messages.{IsShownOn, LacksJsonMemory, Prints, RefusesCheck, RefusesShow, SpellsNoPacket, SpellsPacket};
ghost use Rattle.mq_tasks.specs.Messages.{StopsAttempt, StopsCheck, StopsGiven, StopsRead, StopsShow, StopsSpelled, StopsText, failure_of, form_of, report_of_packet, text_in_view};
ghost use Rattle.mq_command.specs.declared.command_line.Task.TheVariants as tasks;
ghost use Rattle.mq_tasks.specs.Messages.{ByChoice, RunsFor, report_for};
ghost use Rattle.std.specs.declared.alloc.Global.{Global};
ghost use Rattle.mq_choice.specs.Choices.{in_choice};
ghost use Rattle.mq_tasks.specs.Choosing.{chosen_as};
ghost use Rattle.mq_judge.specs.declared.RunFault.TheVariants as run_faults;
ghost use Rattle.mq_tasks.specs.Program.{FailsStop};
ghost use Rattle.mq_host.specs.Streams.{AppendsPart, no_role_line, no_statement_line, stream};
ghost use Rattle.mq_display.specs.OnePacket.{IsOnePacket};
ghost use Rattle.mq_report.specs.Report.{refused_report};
ghost use Rattle.mq_judge.specs.Runner.{IsFaultless};
ghost use Rattle.mq_report.specs.Stopping.{IsJudged};
ghost use Rattle.mq_display.specs.Display.{Shows, is_timed};
ghost use Rattle.mq_log.specs.Events.{events};
ghost use Rattle.mq_trace.specs.Writing.{AppendsBeginning};

use crate::choosing::choice_for;
use hex::{FromHexError, decode};
use mq_choice::Choice;
use mq_command::{EarlyExit, Form as AskedForm, Scope, Task, first_oddity, is_dash, packed};
use mq_display::{Extent, show, show_faults, show_long, write_long_packet, write_packet};
use mq_explain::{explanation, explanations_cited, role_named, statement_list};
use mq_host::{
    ErrorStream, FAILED, FAULTY, Failure, MISUSED, MOST_TEXT, Misuse, NoText, Obstacle, Output,
    PASSED, REFUSED, Trouble, flush, read_text, write_out,
};
use mq_judge::{
    Evidence, Faults, Form, Outcome, Progress, Refusal, RunFault, run_covered, run_watched,
    write_refused,
};
use mq_rules::{Role, Rule};
use std::alloc::Global;
use std::io::{Read, Write};

/// What is shown of the events of a log.
#[derive(Clone, Copy)]
pub enum EventView<'a> {
    /// A line for each.
    Lines {
        /// Whether it is a long one.
        long: bool,
    },
    /// A line for each, and the faults at them.
    Faults {
        /// The faults.
        faults: &'a Faults,
        /// What they conflict with, one for each in their order. A fault beyond their end is shown
        /// without it.
        reasons: &'a [Evidence],
        /// The role of the end whose faults they are.
        role: Role,
        /// How much is shown.
        extent: Extent,
    },
}

/// Does the task, and returns the status to exit with.
///
/// A check judges the log that `input` gives, and writes the report, or the line on a refused log,
/// to `output`: 0 for no fault, 1 for faults, 2 for a refused log. Showing a log writes a line for
/// each event to `output`: 0, or 2 for a refused log, with the line on the refusal after those of
/// the preceding events. A packet's line is written to `output`: 0 if the bytes are one packet, and
/// 1 if they aren't. The lines of the statements, or the explanations of those that a word names,
/// are written to `output`: 0.
///
/// # Errors
///
/// `Failed` if reading or writing failed or memory ran out: what was written until then is part of
/// what would have been. `Misused` if the digits of a packet spell no bytes, or there are too many
/// of them, if the words choose no statements, if the word isn't an end, or if it is neither a
/// statement's code nor a citation: nothing was written.
pub fn attempt<'a, R: Read, W: Write, P: Progress>(
    alloc: Global,
    task: &'a Task,
    input: &mut R,
    output: &mut W,
    progress: &mut P,
) -> Result<u8, Obstacle<'a>>
    ensures passed { IfOk result (λ status. status ≡ PASSED → HasPassed task.now (R.remaining input.old)) }
    ensures faulty { IfOk result (λ status. status ≡ FAULTY → HasFailed task.now (R.remaining input.old)) }
    ensures reported { IfOk result (λ status. status ≤ FAULTY → IsReportedOn task.now (R.remaining input.old)
        (W.contents output.old) (W.contents output.new)) }
    ensures refused { IfOk result (λ status. status ≡ REFUSED → IsRefusedOn task.now (R.remaining input.old)
        (W.contents output.old) (W.contents output.new)) }
    ensures stops { IfErr result (StopsAttempt task.now (R.remaining input.old) (R.remaining input.new)
        (W.contents output.old) (W.contents output.new)) }
    ensures statuses { IfOk result (λ status. status ≤ REFUSED) }
{
    match task {
        Task::Check {
            form,
            coverage,
            scope,
            statements,
            ..
        } => check_chosen(
            alloc, *form, *coverage, *scope, statements, input, output, progress,
        ),
        Task::Show { long, .. } => match show_log(
            alloc,
            EventView::Lines { long: *long },
            input,
            output,
        ) {
            Ok(status) => Ok(status),
            Err(failure) => Err(Obstacle::Failed(failure)),
        },
        Task::Packet { hex, long } => packet_given(alloc, hex.as_str(), *long, input, output),
        Task::Rules {
            role,
            scope,
            statements,
        } => print_listed(alloc, role, *scope, statements, output),
        Task::Explain { code } => explain(alloc, code.as_str(), output),
    }
}

/// The judge's form of report for the one that the words ask for.
pub fn form_of(form: AskedForm) -> Form
    ensures { result ≡ form_of form }
{
    match form {
        AskedForm::Text => Form::Text,
        AskedForm::Json => Form::Json,
        AskedForm::Summary => Form::Summary,
    }
}

// Judges a log, by the statements that the words choose, with a report in the form that they ask
// for.
fn check_chosen<'a, R: Read, W: Write, P: Progress>(
    alloc: Global,
    form: AskedForm,
    coverage: bool,
    scope: Scope,
    statements: &'a Option<String>,
    input: &mut R,
    output: &mut W,
    progress: &mut P,
) -> Result<u8, Obstacle<'a>>
    ensures passed { IfOk result (λ status. status ≡ PASSED → ByChoice scope statements.now (λ choice. IfSome (R.remaining input.old)
        (λ log. IsJudged log × IsFaultless choice.has log))) }
    ensures faulty { IfOk result (λ status. status ≡ FAULTY → ByChoice scope statements.now (λ choice. IfSome (R.remaining input.old)
        (λ log. IsJudged log × (¬ IsFaultless choice.has log)))) }
    ensures reported { IfOk result (λ status. status ≤ FAULTY → ByChoice scope statements.now (λ choice. IfSome (R.remaining input.old)
        (λ log. Appends (W.contents output.old) (W.contents output.new) (report_for choice (form_of form) coverage log)))) }
    ensures refused { IfOk result (λ status. status ≡ REFUSED → IfSome (R.remaining input.old)
        (λ log. RefusesCheck (form_of form) log (W.contents output.old) (W.contents output.new))) }
    ensures stops { (file : Option (String Global)) → IfErr result (StopsAttempt (tasks.Check file form coverage scope statements.now) (R.remaining input.old) (R.remaining input.new)
        (W.contents output.old) (W.contents output.new)) }
    ensures statuses { IfOk result (λ status. status ≤ REFUSED) }
{
    match choice_for(scope, statements) {
        Ok(choice) => match check(
            alloc,
            form_of(form),
            coverage,
            choice,
            input,
            output,
            progress,
        ) {
            Ok(status) => Ok(status),
            Err(failure) => Err(Obstacle::Failed(failure)),
        },
        Err(misuse) => Err(Obstacle::Misused(misuse)),
    }
}

// Judges a log, by the statements of this choice, with a report in this form, which says how often
// each statement was put to the test if `coverage` is asked for.
fn check<R: Read, W: Write, P: Progress>(
    alloc: Global,
    form: Form,
    coverage: bool,
    choice: Choice,
    input: &mut R,
    output: &mut W,
    progress: &mut P,
) -> Result<u8, Failure>
    ensures passed { IfOk result (λ status. status ≡ PASSED → IfSome (R.remaining input.old)
        (λ log. IsJudged log × IsFaultless (in_choice choice) log)) }
    ensures faulty { IfOk result (λ status. status ≡ FAULTY → IfSome (R.remaining input.old)
        (λ log. IsJudged log × (¬ IsFaultless (in_choice choice) log))) }
    ensures reported { IfOk result (λ status. status ≤ FAULTY → IfSome (R.remaining input.old)
        (λ log. Appends (W.contents output.old) (W.contents output.new) (report_for (chosen_as choice) form coverage log))) }
    ensures refused { IfOk result (λ status. status ≡ REFUSED → IfSome (R.remaining input.old)
        (λ log. RefusesCheck form log (W.contents output.old) (W.contents output.new))) }
    ensures stops { IfErr result (λ failure. IfSome (R.remaining input.old)
        (λ log. StopsCheck (chosen_as choice) form coverage failure log (R.remaining input.new) (W.contents output.old) (W.contents output.new))) }
    ensures statuses { IfOk result (λ status. status ≤ REFUSED) }
{
    match run_for(alloc, form, coverage, choice, input, output, progress) {
        Ok(Outcome::Pass) => see_out(PASSED, output),
        Ok(Outcome::Fail) => see_out(FAULTY, output),
        Err(RunFault::Refused(refusal)) => refuse(alloc, &refusal, form, output),
        Err(RunFault::Write) => Err(Failure::Write),
        Err(RunFault::Memory) => Err(Failure::Memory),
    }
}

// Judges a log and writes the report on it, with coverage or without.
#[tactic(auto, using(crate::proofs::MessageLaws::ran_without))]
fn run_for<R: Read, W: Write, P: Progress>(
    alloc: Global,
    form: Form,
    coverage: bool,
    choice: Choice,
    input: &mut R,
    output: &mut W,
    progress: &mut P,
) -> Result<Outcome, RunFault>
    ensures runs { IfSome (R.remaining input.old) (λ log. RunsFor (chosen_as choice) form coverage log (R.remaining input.new) result
        (W.contents output.old) (W.contents output.new)) }
    ensures unwritten { (refusal : Refusal) → result ≡ Err (run_faults.Refused refusal) → output.new ≡ output.old }
{
    if coverage {
        run_covered(alloc, input, output, form, choice, progress)
    } else {
        run_watched(alloc, input, output, form, choice, progress)
    }
}

/// Shows the events of a log, and returns the status.
///
/// # Errors
///
/// What failed.
pub fn show_log<R: Read, W: Write>(
    alloc: Global,
    view: EventView<'_>,
    input: &mut R,
    output: &mut W,
) -> Result<u8, Failure>
    ensures passed { IfOk result (λ status. status ≡ PASSED → IfSome (R.remaining input.old) IsJudged) }
    ensures shown { IfOk result (λ status. status ≡ PASSED → IfSome (R.remaining input.old)
        (λ log. Appends (W.contents output.old) (W.contents output.new) (text_in_view (is_timed log) view.entry (events log)))) }
    ensures refused { IfOk result (λ status. status ≡ REFUSED → IfSome (R.remaining input.old)
        (λ log. RefusesShow (text_in_view (is_timed log) view.entry) log (W.contents output.old) (W.contents output.new))) }
    ensures stops { IfErr result (λ failure. IfSome (R.remaining input.old)
        (λ log. StopsShow (text_in_view (is_timed log) view.entry) failure log (R.remaining input.new) (W.contents output.old) (W.contents output.new))) }
    ensures statuses { IfOk result (λ status. (status ≡ PASSED) ⊎ (status ≡ REFUSED)) }
{
    match show_lines(alloc, view, input, output) {
        Ok(()) => see_out(PASSED, output),
        Err(RunFault::Refused(why)) => refuse(alloc, &why, Form::Text, output),
        Err(RunFault::Write) => Err(Failure::Write),
        Err(RunFault::Memory) => Err(Failure::Memory),
    }
}

// Writes what is shown of the events of a log.
fn show_lines<R: Read, W: Write>(
    alloc: Global,
    view: EventView<'_>,
    input: &mut R,
    output: &mut W,
) -> Result<(), RunFault>
    ensures { IfSome (R.remaining input.old) (λ log. Shows (text_in_view (is_timed log) view.entry) log (R.remaining input.new) result
        (W.contents output.old) (W.contents output.new)) }
{
    match view {
        EventView::Lines { long: false } => show(alloc, input, output),
        EventView::Lines { long: true } => show_long(alloc, input, output),
        EventView::Faults {
            faults,
            reasons,
            role,
            extent,
        } => show_faults(alloc, faults, reasons, role, extent, input, output),
    }
}

/// Writes in this form why the log is refused, if the reason is the log.
///
/// # Errors
///
/// What failed.
pub fn refuse<W: Write>(
    alloc: Global,
    refusal: &Refusal,
    form: Form,
    output: &mut W,
) -> Result<u8, Failure>
    ensures status { IfOk result (λ status. status ≡ REFUSED) }
    ensures own { OnOk result (IsOfLog refusal.now) }
    ensures written { OnOk result
        (Appends (W.contents output.old) (W.contents output.new) (refused_report form refusal.now)) }
    ensures failed { IfErr result (λ failure. (failure ≡ failure_of refusal.now)
        ⊎ ((failure ≡ Failure.Memory) × LacksJsonMemory form refusal.now (W.contents output.old) (W.contents output.new))) }
    ensures begun { IfErr result (λ _.
        BeginsRefusal form refusal.now (W.contents output.old) (W.contents output.new)) }
{
    match refusal {
        Refusal::Read(_) => Err(Failure::Read),
        Refusal::Memory(_) => Err(Failure::Memory),
        _ => match write_refused(alloc, refusal, form, output) {
            Ok(()) => see_out(REFUSED, output),
            Err(RunFault::Memory) => Err(Failure::Memory),
            Err(_) => Err(Failure::Write),
        },
    }
}

// Writes which packet the bytes are that this operand spells, or the text on standard input.
fn packet_given<'a, R: Read, W: Write>(
    alloc: Global,
    operand: &str,
    long: bool,
    input: &mut R,
    output: &mut W,
) -> Result<u8, Obstacle<'a>>
    ensures passed { IfOk result (λ status. status ≡ PASSED → OfDigits operand.now (R.remaining input.old) SpellsPacket) }
    ensures faulty { IfOk result (λ status. status ≡ FAULTY → OfDigits operand.now (R.remaining input.old) SpellsNoPacket) }
    ensures reported { OnOk result (OfDigits operand.now (R.remaining input.old) (λ text. AppendsReportOf long text (W.contents output.old) (W.contents output.new))) }
    ensures stops { IfErr result (StopsGiven long operand.now (R.remaining input.old) (W.contents output.old) (W.contents output.new)) }
    ensures statuses { IfOk result (λ status. status ≤ FAULTY) }
{
    if is_dash(operand) {
        packet_read(alloc, long, input, output)
    } else {
        packet(alloc, operand.as_bytes(), long, output)
    }
}

// Writes which packet the bytes are that the text on standard input spells.
fn packet_read<'a, R: Read, W: Write>(
    alloc: Global,
    long: bool,
    input: &mut R,
    output: &mut W,
) -> Result<u8, Obstacle<'a>>
    ensures passed { IfOk result (λ status. status ≡ PASSED → IfSome (R.remaining input.old) SpellsPacket) }
    ensures faulty { IfOk result (λ status. status ≡ FAULTY → IfSome (R.remaining input.old) SpellsNoPacket) }
    ensures reported { OnOk result (IfSome (R.remaining input.old) (λ text. AppendsReportOf long text (W.contents output.old) (W.contents output.new))) }
    ensures stops { IfErr result (StopsRead long (R.remaining input.old) (W.contents output.old) (W.contents output.new)) }
    ensures statuses { IfOk result (λ status. status ≤ FAULTY) }
{
    match read_text(alloc, input, MOST_TEXT) {
        Ok(text) => packet(alloc, text.as_slice(), long, output),
        Err(NoText::Unread) => Err(Obstacle::Failed(Failure::Read)),
        Err(NoText::Memory) => Err(Obstacle::Failed(Failure::Memory)),
        Err(NoText::TooLong) => Err(Obstacle::Misused(Misuse::TooLong)),
    }
}

// Writes which packet the bytes are that a text spells.
fn packet<'a, W: Write>(
    alloc: Global,
    text: &[u8],
    long: bool,
    output: &mut W,
) -> Result<u8, Obstacle<'a>>
    ensures passed { IfOk result (λ status. status ≡ PASSED → SpellsPacket text.now) }
    ensures faulty { IfOk result (λ status. status ≡ FAULTY → SpellsNoPacket text.now) }
    ensures reported { OnOk result (AppendsReportOf long text.now (W.contents output.old) (W.contents output.new)) }
    ensures stops { IfErr result (StopsSpelled long text.now (W.contents output.old) (W.contents output.new)) }
    ensures statuses { IfOk result (λ status. status ≤ FAULTY) }
{
    match packed(alloc, text) {
        Ok(digits) => match decode(alloc, digits.as_slice()) {
            Ok(bytes) => match print_packet(bytes.as_slice(), long, output) {
                Ok(status) => Ok(status),
                Err(failure) => Err(Obstacle::Failed(failure)),
            },
            Err(FromHexError::OutOfMemory) => Err(Obstacle::Failed(Failure::Memory)),
            Err(_) => Err(Obstacle::Misused(Misuse::NotHex(first_oddity(text)))),
        },
        Err(_) => Err(Obstacle::Failed(Failure::Memory)),
    }
}

// Writes the report on these bytes.
fn print_packet<W: Write>(bytes: &[u8], long: bool, output: &mut W) -> Result<u8, Failure>
    ensures passed { IfOk result (λ status. status ≡ PASSED → IsOnePacket bytes.now) }
    ensures faulty { IfOk result (λ status. status ≡ FAULTY → ¬ IsOnePacket bytes.now) }
    ensures statuses { IfOk result (λ status. status ≤ FAULTY) }
    ensures written { OnOk result
        (Appends (W.contents output.old) (W.contents output.new) (report_of_packet long bytes.now)) }
    ensures failed { IfErr result (λ failure. failure ≡ Failure.Write) }
    ensures begun { IfErr result (λ _.
        AppendsPart (W.contents output.old) (W.contents output.new) (report_of_packet long bytes.now)) }
{
    match write_report(bytes, long, output) {
        Ok(true) => see_out(PASSED, output),
        Ok(false) => see_out(FAULTY, output),
        Err(_) => Err(Failure::Write),
    }
}

// Writes the line that says which packet these bytes are, or that and what else there is to say.
fn write_report<W: Write>(bytes: &[u8], long: bool, output: &mut W) -> Result<bool, RunFault>
    ensures ok { OnOk result (Appends (W.contents output.old) (W.contents output.new) (report_of_packet long bytes.now)) }
    ensures one_packet { IfOk result (λ answer. (answer ≡ true) ↔ IsOnePacket bytes.now) }
    ensures write { IfErr result (λ _. AppendsBeginning (W.contents output.old) (W.contents output.new) (report_of_packet long bytes.now)) }
{
    if long {
        write_long_packet(bytes, output)
    } else {
        write_packet(bytes, output)
    }
}

// Lists the statements that the words choose: all, or those that bind the end that a word names.
fn print_listed<'a, W: Write>(
    alloc: Global,
    role: &'a Option<String>,
    scope: Scope,
    statements: &'a Option<String>,
    output: &mut W,
) -> Result<u8, Obstacle<'a>>
    ensures passed { OnOk result (ByChoice scope statements.now (λ choice. IsSome (listed_for choice.has (option_map string_bytes role.now)))) }
    ensures reported { OnOk result (ByChoice scope statements.now (λ choice. Prints (listed_for choice.has (option_map string_bytes role.now))
        (W.contents output.old) (W.contents output.new))) }
    ensures stops { (input left : Option (List ℕ)) → IfErr result (StopsAttempt (tasks.Rules role.now scope statements.now) input left
        (W.contents output.old) (W.contents output.new)) }
    ensures statuses { IfOk result (λ status. status ≡ PASSED) }
{
    match choice_for(scope, statements) {
        Ok(choice) => print_chosen(alloc, role, choice, output),
        Err(misuse) => Err(Obstacle::Misused(misuse)),
    }
}

// Lists the chosen statements: all, or those that bind the end that the word names.
fn print_chosen<'a, W: Write>(
    alloc: Global,
    role: &'a Option<String>,
    choice: Choice,
    output: &mut W,
) -> Result<u8, Obstacle<'a>>
    ensures printed { OnOk result (Prints (listed_for (in_choice choice) (option_map string_bytes role.now)) (W.contents output.old) (W.contents output.new)) }
    ensures stops { IfErr result (StopsText (listed_for (in_choice choice) (option_map string_bytes role.now))
        (no_role_line (unwrap_or (option_map string_bytes role.now) [])) (W.contents output.old) (W.contents output.new)) }
    ensures statuses { IfOk result (λ status. status ≡ PASSED) }
{
    match role {
        None => list(alloc, None, choice, output),
        Some(word) => print_rules(alloc, word.as_str(), choice, output),
    }
}

// Lists the chosen statements that bind the end that the word names.
fn print_rules<'a, W: Write>(
    alloc: Global,
    word: &'a str,
    choice: Choice,
    output: &mut W,
) -> Result<u8, Obstacle<'a>>
    ensures printed { OnOk result (Prints (listed_for (in_choice choice) (Some word.now)) (W.contents output.old) (W.contents output.new)) }
    ensures stops { IfErr result (StopsText (listed_for (in_choice choice) (Some word.now)) (no_role_line word.now)
        (W.contents output.old) (W.contents output.new)) }
    ensures statuses { IfOk result (λ status. status ≡ PASSED) }
{
    match role_named(word) {
        Some(role) => list(alloc, Some(role), choice, output),
        None => Err(Obstacle::Misused(Misuse::NoRole(word))),
    }
}

// Lists the chosen statements, for one end or for both.
fn list<'a, W: Write>(
    alloc: Global,
    role: Option<Role>,
    choice: Choice,
    output: &mut W,
) -> Result<u8, Obstacle<'a>>
    ensures printed { OnOk result
        (Appends (W.contents output.old) (W.contents output.new) (statement_lines (in_choice choice) role)) }
    ensures stops { (line : List ℕ) → IfErr result (StopsText (Some (statement_lines (in_choice choice) role)) line (W.contents output.old) (W.contents output.new)) }
    ensures statuses { IfOk result (λ status. status ≡ PASSED) }
{
    match statement_list(alloc, role, choice) {
        Ok(text) => print(text.as_str(), output),
        Err(_) => Err(Obstacle::Failed(Failure::Memory)),
    }
}

// Writes the explanation of the statement with this code, or of all that have this citation.
fn explain<'a, W: Write>(alloc: Global, word: &'a str, output: &mut W) -> Result<u8, Obstacle<'a>>
    ensures printed { OnOk result (Prints (explained_for word.now) (W.contents output.old) (W.contents output.new)) }
    ensures stops { IfErr result (StopsText (explained_for word.now) (no_statement_line word.now)
        (W.contents output.old) (W.contents output.new)) }
    ensures statuses { IfOk result (λ status. status ≡ PASSED) }
{
    match Rule::of_code(word) {
        Some(rule) => print(explanation(rule), output),
        None => match explanations_cited(alloc, word) {
            Ok(text) => print_if_some(text.as_str(), word, output),
            Err(_) => Err(Obstacle::Failed(Failure::Memory)),
        },
    }
}

// Writes a text, unless it is empty, since the word names no statement.
fn print_if_some<'a, W: Write>(
    text: &str,
    word: &'a str,
    output: &mut W,
) -> Result<u8, Obstacle<'a>>
    ensures printed { OnOk result (Prints (if_some text.now) (W.contents output.old) (W.contents output.new)) }
    ensures stops { IfErr result (StopsText (if_some text.now) (no_statement_line word.now)
        (W.contents output.old) (W.contents output.new)) }
    ensures statuses { IfOk result (λ status. status ≡ PASSED) }
{
    if text.is_empty() {
        Err(Obstacle::Misused(Misuse::NoStatement(word)))
    } else {
        print(text, output)
    }
}

// Writes a text to the end, and returns the status.
fn print<'a, W: Write>(text: &str, output: &mut W) -> Result<u8, Obstacle<'a>>
    ensures printed { OnOk result (Appends (W.contents output.old) (W.contents output.new) text.now) }
    ensures stops { (line : List ℕ) → IfErr result (StopsText (Some text.now) line (W.contents output.old) (W.contents output.new)) }
    ensures statuses { IfOk result (λ status. status ≡ PASSED) }
{
    match write_out(text, output) {
        Ok(()) => Ok(PASSED),
        Err(failure) => Err(Obstacle::Failed(failure)),
    }
}

/// Flushes what was written, and returns the status.
///
/// # Errors
///
/// `Write`.
pub fn see_out<W: Write>(status: u8, output: &mut W) -> Result<u8, Failure>
    ensures status { IfOk result (λ given. given ≡ status) }
    ensures kept { Keeps (W.contents output.old) (W.contents output.new) }
    ensures failed { IfErr result (λ failure. failure ≡ Failure.Write) }
{
    flush(output)?;
    Ok(status)
}

/// Writes why there is no task, and returns the status to exit with: 0 for help or the version, 3
/// for a misuse, and 4 if memory ran out or the text couldn't be written.
pub fn stop<W: Output, E: ErrorStream>(stop: &EarlyExit, output: &mut W, error: &mut E) -> u8
    ensures shown { result ≡ 0 → IsShownOn stop.now (W.contents output.old) (W.contents output.new) }
    ensures printed { result ≡ 3 → IsPrintedOn stop.now (E.contents error.old) (E.contents error.new) }
    ensures failed { result ≡ 4 → FailsStop stop.now (W.is_closed output.new)
        (W.contents output.old) (W.contents output.new) (stream E.contents E.has_failed error.old error.new) }
    ensures statuses { (result ≡ 0) ⊎ ((result ≡ 3) ⊎ (result ≡ 4)) }

    // A text goes to only one of the two.
    ensures quiet { result ≡ 0 → Keeps (E.contents error.old) (E.contents error.new) }
    ensures unprinted { result ≡ 3 → Keeps (W.contents output.old) (W.contents output.new) }
{
    match stop {
        EarlyExit::Help(text) => match write_out(text.as_str(), output) {
            Ok(()) => PASSED,
            Err(_) => Trouble::Write.report("", output, error),
        },
        EarlyExit::Usage(text) => match error.write_message(text.as_str()) {
            Ok(()) => MISUSED,
            Err(_) => FAILED,
        },
        EarlyExit::Memory => Failure::Memory.report(error),
    }
}
