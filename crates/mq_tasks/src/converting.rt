//! Converting a log of version 1 into one of version 2.
ghost use Rattle.std.specs.Prelude.{◌≡◌, ◌≢◌, ◌≤◌, ◌⊎◌, ◌∷◌, [], List, Some, Ok, Err, IfErr, IfNone, IfOk, IfSome, MatchResult, OnOk, Option, length, option_map};
ghost use Rattle.std.specs.Io.KnownBytes.{Appends, IsAtEnd, Keeps, prepend_known};
ghost use Rattle.mq_report.specs.Report.{refused_line};
ghost use Rattle.mq_trace.specs.Converting.{converted};
ghost use Rattle.clap.specs.Words.{Text};
ghost use Rattle.mq_command.specs.CommandLine.{path_named};
ghost use Rattle.mq_tasks.specs.Converting.{DoesToFiles, FailsConverting, IsConverted, IsConvertible, IsInconvertible, MakesFile, MakesNothing, RefusesConverting, StopsConverting, files_of, files_view};
ghost use Rattle.mq_host.specs.Effects.{Effect, keeping, opening};
ghost use Rattle.mq_host.specs.Given.{HasOpened, bytes_at};
ghost use Rattle.mq_tasks.specs.Messages.{BeginsRefusal, IsOfLog, LacksJsonMemory, failure_of};
ghost use Rattle.mq_tasks.specs.Program.{FailsConversion, FailsFiles, FailsSource, FailsUnmade, ForSomeFile, IsMisuseFor, MisusesConversion, MisusesFile, PassesConversion, RefusesConversion, RefusesSource};
ghost use Rattle.mq_host.specs.Streams.{IsTold, misuse_line, stream};
ghost use Rattle.mq_host.specs.Troubles.{Tells, hint_line};

use crate::tasks::refuse;
use mq_command::Conversion;
use mq_host::{
    ErrorStream, FAILED, Failure, Host, Identity, MISUSED, Misuse, NewFile, Noting, Output, PASSED,
    REFUSED, STANDARD_INPUT, Trouble, Unmade, give_hint, read_start,
};
use mq_judge::{ConvertFault, Form, Refusal, convert};
use std::alloc::Global;
use std::io::{Read, Write, sink};

/// The files that a conversion is about.
#[derive(Clone, Copy)]
pub struct Files<'a> {
    /// The path of the log that is read; `None` is standard input.
    pub log: Option<&'a str>,
    /// The path of the log that is made.
    pub made: &'a str,
    /// Whether a file at that path may be emptied.
    pub force: bool,
}

/// The file that is made.
#[derive(Clone, Copy)]
struct Target<'a> {
    /// Its path.
    path: &'a str,
    /// Whether a file at that path may be emptied.
    force: bool,
    /// Which file the log is, if the system says so.
    log: Option<Identity>,
}

/// Converts a log of version 1 into one of version 2, and returns the status to exit with.
///
/// The log is opened, its first bytes are read, and its header is judged, before the other file is
/// made, so nothing is made if the log can't be opened or read, or is refused for its header. All
/// of the log in version 2 is written to that file, and nothing to `output`: 0. If the log is
/// refused, the line that says so is written to `output`: 2; unless it is for its header, the file
/// then has the log in version 2 up to there. Two words that are the same, a file that is there
/// without `force`, and one that is the log by another name are a misuse, which is reported on
/// `error`, and nothing is changed: 3. If reading or writing failed or memory ran out, what failed
/// is reported on `error`: 4. For a refused log whose first bytes show that it is another kind of
/// file, a line on `error` says what to do with it.
pub fn convert_file<H: Host, W: Output, E: ErrorStream>(
    alloc: Global,
    host: &mut H,
    asked: &Conversion,
    output: &mut W,
    error: &mut E,
) -> u8
    ensures passed { result ≡ PASSED → PassesConversion (H.gives host.old) asked.now }
    ensures refused { result ≡ REFUSED → RefusesConversion (H.gives host.old) asked.now
        (W.contents output.old) (W.contents output.new) (stream E.contents E.has_failed error.old error.new) }
    ensures misused { result ≡ MISUSED → MisusesConversion (H.gives host.old) asked.now (E.contents error.old) (E.contents error.new) }
    ensures failed { result ≡ FAILED → FailsConversion (H.gives host.old) asked.now (W.is_closed output.new)
        (W.contents output.old) (W.contents output.new) (stream E.contents E.has_failed error.old error.new) }
    ensures statuses { (result ≡ PASSED) ⊎ ((result ≡ REFUSED) ⊎ ((result ≡ MISUSED) ⊎ (result ≡ FAILED))) }
    ensures quiet { result ≡ PASSED → Keeps (E.contents error.old) (E.contents error.new) }
    ensures unprinted { (result ≡ PASSED) ⊎ (result ≡ MISUSED) → Keeps (W.contents output.old) (W.contents output.new) }
    ensures done { H.did host.old [] → MatchResult (files_of asked.now)
        (λ files. DoesToFiles (bytes_at (H.gives host.old) files.log) files.made files.force result (H.did host.new)) (λ _. H.did host.new []) }
{
    match files_of(asked) {
        Ok(files) => convert_files(alloc, host, files, output, error),
        Err(misuse) => misuse.report(alloc, error),
    }
}

// The files that the words name, or why nothing is converted: making a file of the same name would
// empty the log.
fn files_of(asked: &Conversion) -> Result<Files<'_>, Misuse<'_>>
    ensures ok { IfOk result (λ files. files_of asked.now ≡ Ok (files_view files)) }
    ensures err { IfErr result (λ why. files_of asked.now ≡ Err (misuse_line why)) }
{
    let input = asked.input.as_str();
    let made = asked.output.as_str();
    if input == made {
        return Err(Misuse::SameFile);
    }
    Ok(Files {
        log: path_of(input),
        made,
        force: asked.force,
    })
}

// The path that a word names: `-` is standard input.
fn path_of(word: &str) -> Option<&str>
    ensures { option_map (λ path. path.now) result ≡ path_named (Some word.now) }
{
    if word == "-" { None } else { Some(word) }
}

// Opens the log, and converts it into the other file, and returns the status.
fn convert_files<H: Host, W: Output, E: ErrorStream>(
    alloc: Global,
    host: &mut H,
    files: Files<'_>,
    output: &mut W,
    error: &mut E,
) -> u8
    ensures passed { result ≡ PASSED → IfSome (bytes_at (H.gives host.old) (files_view files.entry).log) IsConvertible }
    ensures refused { result ≡ REFUSED → RefusesSource (bytes_at (H.gives host.old) (files_view files.entry).log)
        (W.contents output.old) (W.contents output.new) (stream E.contents E.has_failed error.old error.new) }
    ensures misused { result ≡ MISUSED → MisusesFile (H.gives host.old) files.entry.made.now (E.contents error.old) (E.contents error.new) }
    ensures failed { result ≡ FAILED → FailsFiles (H.gives host.old) (files_view files.entry) (W.is_closed output.new)
        (W.contents output.old) (W.contents output.new) (stream E.contents E.has_failed error.old error.new) }
    ensures statuses { (result ≡ PASSED) ⊎ ((result ≡ REFUSED) ⊎ ((result ≡ MISUSED) ⊎ (result ≡ FAILED))) }
    ensures quiet { result ≡ PASSED → Keeps (E.contents error.old) (E.contents error.new) }
    ensures unprinted { (result ≡ PASSED) ⊎ (result ≡ MISUSED) → Keeps (W.contents output.old) (W.contents output.new) }
    ensures done { H.did host.old [] → DoesToFiles (bytes_at (H.gives host.old) (files_view files.entry).log)
        files.entry.made.now files.entry.force result (H.did host.new) }
{
    match files.log {
        Some(path) => match host.open(path) {
            Ok(log) => {
                let target = Target {
                    path: files.made,
                    force: files.force,
                    log: host.file_identity(&log),
                };
                convert_source(alloc, host, path, log, target, output, error)
            }
            Err(trouble) => trouble.report(path, output, error),
        },
        None => {
            let log = host.input();
            let target = Target {
                path: files.made,
                force: files.force,
                log: host.input_identity(),
            };
            convert_source(alloc, host, STANDARD_INPUT, log, target, output, error)
        }
    }
}

// Reads the first bytes of a log, and converts it into the file at this path, and returns the
// status.
fn convert_source<H: Host, R: Read + Drop, W: Output, E: ErrorStream>(
    alloc: Global,
    host: &mut H,
    place: &str,
    log: R,
    target: Target<'_>,
    output: &mut W,
    error: &mut E,
) -> u8
    requires opened { HasOpened (H.gives host.old) }
    requires identified { (H.gives host.old).identified target.log }
    ensures passed { result ≡ PASSED → IfSome (R.remaining log) IsConvertible }
    ensures refused { result ≡ REFUSED → RefusesSource (R.remaining log)
        (W.contents output.old) (W.contents output.new) (stream E.contents E.has_failed error.old error.new) }
    ensures misused { result ≡ MISUSED → MisusesFile (H.gives host.old) target.entry.path.now (E.contents error.old) (E.contents error.new) }
    ensures failed { result ≡ FAILED → FailsSource (H.gives host.old) place.now (R.remaining log) target.entry.path.now (W.is_closed output.new)
        (W.contents output.old) (W.contents output.new) (stream E.contents E.has_failed error.old error.new) }
    ensures statuses { (result ≡ PASSED) ⊎ ((result ≡ REFUSED) ⊎ ((result ≡ MISUSED) ⊎ (result ≡ FAILED))) }
    ensures quiet { result ≡ PASSED → Keeps (E.contents error.old) (E.contents error.new) }
    ensures unprinted { (result ≡ PASSED) ⊎ (result ≡ MISUSED) → Keeps (W.contents output.old) (W.contents output.new) }
    ensures done { H.did host.old [] → DoesToFiles (R.remaining log) target.entry.path.now target.entry.force result (H.did host.new) }
{
    let mut log = log;
    match read_start(alloc, &mut log) {
        Ok(start) => {
            let start = start.as_slice();
            convert_from(alloc, host, place, start, log, target, output, error)
        }
        Err(trouble) => trouble.report(place, output, error),
    }
}

// Converts the log that begins with these bytes, eight or all that there are, into the file at this
// path, unless they show that it is refused, and returns the status.
fn convert_from<H: Host, R: Read + Drop, W: Output, E: ErrorStream>(
    alloc: Global,
    host: &mut H,
    place: &str,
    start: &[u8],
    input: R,
    target: Target<'_>,
    output: &mut W,
    error: &mut E,
) -> u8
    requires opened { HasOpened (H.gives host.old) }
    requires identified { (H.gives host.old).identified target.log }
    requires enough { (length start.now ≡ 8) ⊎ IsAtEnd (R.remaining input) }
    requires few { length start.now ≤ 8 }
    ensures passed { result ≡ PASSED → IfSome (prepend_known start.now (R.remaining input)) IsConvertible }
    ensures refused { result ≡ REFUSED → ForSomeFile (λ made_old made_new. IfSome (prepend_known start.now (R.remaining input))
        (λ log. RefusesConverting log made_old made_new (W.contents output.old) (W.contents output.new))) }
    ensures hinted { result ≡ REFUSED → IsTold (stream E.contents E.has_failed error.old error.new) (hint_line start.now) }
    ensures misused { result ≡ MISUSED → MisusesFile (H.gives host.old) target.entry.path.now (E.contents error.old) (E.contents error.new) }
    ensures failed { result ≡ FAILED → FailsSource (H.gives host.old) place.now (prepend_known start.now (R.remaining input)) target.entry.path.now (W.is_closed output.new)
        (W.contents output.old) (W.contents output.new) (stream E.contents E.has_failed error.old error.new) }
    ensures statuses { (result ≡ PASSED) ⊎ ((result ≡ REFUSED) ⊎ ((result ≡ MISUSED) ⊎ (result ≡ FAILED))) }
    ensures quiet { result ≡ PASSED → Keeps (E.contents error.old) (E.contents error.new) }
    ensures unprinted { (result ≡ PASSED) ⊎ (result ≡ MISUSED) → Keeps (W.contents output.old) (W.contents output.new) }
    ensures done { H.did host.old [] → DoesToFiles (prepend_known start.now (R.remaining input))
        target.entry.path.now target.entry.force result (H.did host.new) }
{
    match refusal_of_header(start) {
        Ok(None) => make_and_convert(alloc, host, place, start, input, target, output, error),
        Ok(Some(refusal)) => refuse_header(alloc, &refusal, place, start, output, error),
        Err(trouble) => trouble.report(place, output, error),
    }
}

// Why a log that begins with these bytes can't be converted, if they show it.
//
// Errors: memory, but that takes none.
fn refusal_of_header(start: &[u8]) -> Result<Option<Refusal>, Trouble>
    ensures whole { IfOk result (λ refusal. IfNone refusal (IsConvertible start.now)) }
    ensures refused { IfOk result (λ refusal. IfSome refusal (λ why. IsOfLog why × IsInconvertible start.now why)) }
    ensures trouble { IfErr result (λ trouble. trouble ≢ Trouble.Write) }
{
    let mut log = start;
    match convert(&mut log, &mut sink()) {
        Ok(()) => Ok(None),
        Err(ConvertFault::Refused(refusal)) => refusal_of_log(refusal),
        Err(ConvertFault::Write) => Err(Trouble::Memory),
    }
}

// A refusal whose reason is the log.
fn refusal_of_log(refusal: Refusal) -> Result<Option<Refusal>, Trouble>
    ensures own { IfOk result (λ told. (told ≡ Some refusal) × IsOfLog refusal) }
    ensures trouble { IfErr result (λ trouble. trouble ≡ Trouble.Memory) }
{
    match refusal {
        Refusal::Read(_) | Refusal::Memory(_) => Err(Trouble::Memory),
        _ => Ok(Some(refusal)),
    }
}

// Prints why a log is refused for its header, and returns the status.
fn refuse_header<W: Output, E: ErrorStream>(
    alloc: Global,
    refusal: &Refusal,
    place: &str,
    first: &[u8],
    output: &mut W,
    error: &mut E,
) -> u8
    ensures told { result ≡ REFUSED → Appends (W.contents output.old) (W.contents output.new) (refused_line refusal.now) }
    ensures hinted { result ≡ REFUSED → IsTold (stream E.contents E.has_failed error.old error.new) (hint_line first.now) }
    ensures begun { result ≡ FAILED → BeginsRefusal Form.Text refusal.now (W.contents output.old) (W.contents output.new) }
    ensures failed { result ≡ FAILED → Tells (W.is_closed output.new) place.now Trouble.Write (stream E.contents E.has_failed error.old error.new) }
    ensures statuses { (result ≡ REFUSED) ⊎ (result ≡ FAILED) }
{
    match refuse(alloc, refusal, Form::Text, output) {
        Ok(_) => {
            give_hint(first, error);
            REFUSED
        }
        Err(_) => Trouble::Write.report(place, output, error),
    }
}

// Makes the file at this path, and converts into it the log that begins with these bytes, and
// returns the status.
fn make_and_convert<H: Host, R: Read + Drop, W: Output, E: ErrorStream>(
    alloc: Global,
    host: &mut H,
    place: &str,
    start: &[u8],
    input: R,
    target: Target<'_>,
    output: &mut W,
    error: &mut E,
) -> u8
    requires opened { HasOpened (H.gives host.old) }
    requires identified { (H.gives host.old).identified target.log }
    ensures passed { result ≡ PASSED → IfSome (prepend_known start.now (R.remaining input)) IsConvertible }
    ensures refused { result ≡ REFUSED → ForSomeFile (λ made_old made_new. IfSome (prepend_known start.now (R.remaining input))
        (λ log. RefusesConverting log made_old made_new (W.contents output.old) (W.contents output.new))) }
    ensures hinted { result ≡ REFUSED → IsTold (stream E.contents E.has_failed error.old error.new) (hint_line start.now) }
    ensures misused { result ≡ MISUSED → MisusesFile (H.gives host.old) target.entry.path.now (E.contents error.old) (E.contents error.new) }
    ensures failed { result ≡ FAILED → FailsSource (H.gives host.old) place.now (prepend_known start.now (R.remaining input)) target.entry.path.now (W.is_closed output.new)
        (W.contents output.old) (W.contents output.new) (stream E.contents E.has_failed error.old error.new) }
    ensures statuses { (result ≡ PASSED) ⊎ ((result ≡ REFUSED) ⊎ ((result ≡ MISUSED) ⊎ (result ≡ FAILED))) }
    ensures quiet { result ≡ PASSED → Keeps (E.contents error.old) (E.contents error.new) }
    ensures unprinted { (result ≡ PASSED) ⊎ (result ≡ MISUSED) → Keeps (W.contents output.old) (W.contents output.new) }
    ensures done { H.did host.old [] → MakesNothing result (H.did host.new)
        ⊎ MakesFile (prepend_known start.now (R.remaining input)) target.entry.path.now target.entry.force result (H.did host.new) }
{
    match make_target(host, target) {
        Ok(made) => convert_into(alloc, host, place, start, input, made, output, error),
        Err(why) => report_unmade(alloc, why, target.path, output, error),
    }
}

// Makes the file at this path: one that is there is emptied only if that is asked for.
fn make_target<H: Host>(host: &mut H, target: Target<'_>) -> Result<H::Made, Unmade>
    requires opened { HasOpened (H.gives host.old) }
    requires identified { (H.gives host.old).identified target.log }
    ensures made { H.did host.old [] → IfOk result (λ made. H.did host.new (opening target.entry.path.now target.entry.force (H.Made.contents made) ∷ [])) }
    ensures unmade { H.did host.old [] → IfErr result (λ _. H.did host.new []) }
    ensures failed { IfErr result ((H.gives host.old).unmade target.entry.path.now) }
{
    if target.force {
        host.replace(target.path, target.log)
    } else {
        host.make(target.path)
    }
}

// Says why the file at this path wasn't made, and returns the status.
fn report_unmade<W: Output, E: ErrorStream>(
    alloc: Global,
    why: Unmade,
    path: &str,
    output: &W,
    error: &mut E,
) -> u8
    ensures misused { result ≡ MISUSED → IsMisuseFor path.now why (E.contents error.old) (E.contents error.new) }
    ensures failed { result ≡ FAILED → FailsUnmade path.now why (W.is_closed output.now) (W.contents output.now) (W.contents output.now)
        (stream E.contents E.has_failed error.old error.new) }
    ensures statuses { (result ≡ MISUSED) ⊎ (result ≡ FAILED) }
{
    match why {
        Unmade::Exists => Misuse::OutExists(path).report(alloc, error),
        Unmade::IsLog => Misuse::SameFile.report(alloc, error),
        Unmade::Failed(trouble) => trouble.report(path, output, error),
    }
}

// Converts the log that begins with these bytes into a file that was made, and closes the file, and
// returns the status.
fn convert_into<H: Host, R: Read + Drop, W: Output, E: ErrorStream>(
    alloc: Global,
    host: &mut H,
    place: &str,
    start: &[u8],
    input: R,
    made: H::Made,
    output: &mut W,
    error: &mut E,
) -> u8
    ensures passed { result ≡ PASSED → IfSome (prepend_known start.now (R.remaining input)) IsConvertible }
    ensures refused { result ≡ REFUSED → ForSomeFile (λ made_old made_new. IfSome (prepend_known start.now (R.remaining input))
        (λ log. RefusesConverting log made_old made_new (W.contents output.old) (W.contents output.new))) }
    ensures hinted { result ≡ REFUSED → IsTold (stream E.contents E.has_failed error.old error.new) (hint_line start.now) }
    ensures failed { result ≡ FAILED → ForSomeFile (λ made_old made_new. FailsConverting place.now (prepend_known start.now (R.remaining input)) (W.is_closed output.new)
        made_old made_new (W.contents output.old) (W.contents output.new) (stream E.contents E.has_failed error.old error.new)) }
    ensures statuses { (result ≡ PASSED) ⊎ ((result ≡ REFUSED) ⊎ (result ≡ FAILED)) }
    ensures quiet { result ≡ PASSED → Keeps (E.contents error.old) (E.contents error.new) }
    ensures unprinted { result ≡ PASSED → Keeps (W.contents output.old) (W.contents output.new) }
    ensures part { (past : List Effect) → H.did host.old past → result ≡ FAILED → H.did host.new past }
    ensures whole { (past : List Effect) → H.did host.old past → result ≤ REFUSED → (holds : Option Text) × H.did host.new (keeping holds ∷ past)
        × IfSome (prepend_known start.now (R.remaining input)) (λ log. Appends (H.Made.contents made) holds (converted log)) }
{
    let mut made = made;
    let status = perform_convert(alloc, place, start, input, &mut made, output, error);
    if status == FAILED {
        return FAILED;
    }
    host.keep(made);
    status
}

/// Converts the log that begins with these bytes, and goes on with those that `input` gives, and
/// returns the status to exit with. Messages call the log by the name of its place.
///
/// All of the log in version 2 is written to `made` and saved, and nothing is printed: 0. If the
/// log is refused, what is written of the log up to there is written to `made` and saved, and the
/// line that says so is written to `output`: 2. If reading or writing failed, that is reported on
/// `error`, and `made` got no more than a beginning: 4.
pub fn perform_convert<R: Read + Drop, M: NewFile, W: Output, E: ErrorStream>(
    alloc: Global,
    place: &str,
    start: &[u8],
    input: R,
    made: &mut M,
    output: &mut W,
    error: &mut E,
) -> u8
    ensures passed { result ≡ PASSED → IfSome (prepend_known start.now (R.remaining input))
        (λ log. IsConverted log (M.contents made.old) (M.contents made.new)) }
    ensures saved { (result ≡ PASSED) ⊎ (result ≡ REFUSED) → M.is_saved made.new }
    ensures refused { result ≡ REFUSED → IfSome (prepend_known start.now (R.remaining input))
        (λ log. RefusesConverting log (M.contents made.old) (M.contents made.new) (W.contents output.old) (W.contents output.new)) }
    ensures hinted { result ≡ REFUSED → IsTold (stream E.contents E.has_failed error.old error.new) (hint_line start.now) }
    ensures failed { result ≡ FAILED → FailsConverting place.now (prepend_known start.now (R.remaining input)) (W.is_closed output.new)
        (M.contents made.old) (M.contents made.new) (W.contents output.old) (W.contents output.new) (stream E.contents E.has_failed error.old error.new) }
    ensures statuses { (result ≡ PASSED) ⊎ ((result ≡ REFUSED) ⊎ (result ≡ FAILED)) }
    ensures quiet { result ≡ PASSED → Keeps (E.contents error.old) (E.contents error.new) }
    ensures unprinted { result ≡ PASSED → Keeps (W.contents output.old) (W.contents output.new) }
{
    let mut log = Noting::new(start.chain(input));
    match convert_log(alloc, &mut log, made, output) {
        Ok(REFUSED) => {
            give_hint(start, error);
            REFUSED
        }
        Ok(status) => status,
        Err(failure) => Trouble::of(failure, log.reason()).report(place, output, error),
    }
}

// Converts a log, and saves the file, or prints why the log is refused, and returns the status.
fn convert_log<R: Read, M: NewFile, W: Write>(
    alloc: Global,
    log: &mut R,
    made: &mut M,
    output: &mut W,
) -> Result<u8, Failure>
    ensures passed { IfOk result (λ status. status ≡ PASSED → IfSome (R.remaining log.old)
        (λ bytes. IsConverted bytes (M.contents made.old) (M.contents made.new))) }
    ensures saved { OnOk result (M.is_saved made.new) }
    ensures unprinted { IfOk result (λ status. status ≡ PASSED → Keeps (W.contents output.old) (W.contents output.new)) }
    ensures refused { IfOk result (λ status. status ≡ REFUSED → IfSome (R.remaining log.old)
        (λ bytes. RefusesConverting bytes (M.contents made.old) (M.contents made.new) (W.contents output.old) (W.contents output.new))) }
    ensures stops { IfErr result (λ failure. IfSome (R.remaining log.old) (λ bytes. StopsConverting failure bytes (R.remaining log.new)
        (M.contents made.old) (M.contents made.new) (W.contents output.old) (W.contents output.new))) }
    ensures statuses { IfOk result (λ status. (status ≡ PASSED) ⊎ (status ≡ REFUSED)) }
{
    match convert(log, made) {
        Ok(()) => save(made),
        Err(ConvertFault::Refused(refusal)) => refuse_saved(alloc, &refusal, made, output),
        Err(ConvertFault::Write) => Err(Failure::Write),
    }
}

// Saves the file, and returns the status.
fn save<M: NewFile>(made: &mut M) -> Result<u8, Failure>
    ensures status { IfOk result (λ status. status ≡ PASSED) }
    ensures kept { Keeps (M.contents made.old) (M.contents made.new) }
    ensures saved { OnOk result (M.is_saved made.new) }
    ensures failed { IfErr result (λ failure. failure ≡ Failure.Write) }
{
    match made.save() {
        Ok(()) => Ok(PASSED),
        Err(failure) => Err(failure),
    }
}

// Saves what was written of a log, and prints why the log is refused, and returns the status.
fn refuse_saved<M: NewFile, W: Write>(
    alloc: Global,
    refusal: &Refusal,
    made: &mut M,
    output: &mut W,
) -> Result<u8, Failure>
    ensures status { IfOk result (λ status. status ≡ REFUSED) }
    ensures kept { Keeps (M.contents made.old) (M.contents made.new) }
    ensures saved { OnOk result (M.is_saved made.new) }
    ensures own { OnOk result (IsOfLog refusal.now) }
    ensures written { OnOk result (Appends (W.contents output.old) (W.contents output.new) (refused_line refusal.now)) }
    ensures failed { IfErr result (λ failure. (failure ≡ failure_of refusal.now)
        ⊎ ((failure ≡ Failure.Memory) × LacksJsonMemory Form.Text refusal.now (W.contents output.old) (W.contents output.new))) }
    ensures begun { IfErr result (λ _. BeginsRefusal Form.Text refusal.now (W.contents output.old) (W.contents output.new)) }
{
    match made.save() {
        Ok(()) => refuse(alloc, refusal, Form::Text, output),
        Err(_) => Err(failure_of(refusal)),
    }
}

// What failed, if a refusal isn't printed: reading or memory if that is the refusal, else writing.
fn failure_of(refusal: &Refusal) -> Failure
    ensures { result ≡ failure_of refusal.now }
{
    match refusal {
        Refusal::Read(_) => Failure::Read,
        Refusal::Memory(_) => Failure::Memory,
        _ => Failure::Write,
    }
}
