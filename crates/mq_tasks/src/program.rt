//! The program: from the words of its command line to its status.
ghost use Rattle.std.specs.Prelude.{◌≡◌, ◌≤◌, ◌⊎◌, [], IfSome, None, map};
ghost use Rattle.std.specs.Io.KnownBytes.{Keeps, prepend_known};
ghost use Rattle.mq_tasks.specs.Program.{DoesForWords, DoesForWork, FailsLog, FailsWords, FailsRead, FailsTaskOn, FailsWork, FindsFaults, FindsFaultsIn, IsMisuse, WordsUnread};
ghost use Rattle.mq_tasks.specs.Program.{IsHinted, MisusesTask, MisusesWork, Passes, PassesWork, Refuses, RefusesWork, input_of};
ghost use Rattle.mq_tasks.specs.Messages.{HasFailed, HasPassed, IsRefusedOn, IsReportedOn};
ghost use Rattle.mq_host.specs.Streams.{IsTold, stream};
ghost use Rattle.mq_host.specs.Troubles.{hint_line};

use crate::choosing::misuse_of;
use crate::converting::convert_file;
use crate::inquiring::inquire;
use crate::reviewing::review;
use crate::tasks::{attempt, stop};
use mq_command::{Task, Work, parse};
use mq_host::{
    ErrorStream, Host, Noting, Obstacle, Output, REFUSED, STANDARD_INPUT, Trouble, give_hint,
    read_start,
};
use mq_judge::Progress;
use std::alloc::Global;
use std::convert::AsStr;
use std::io::Read;

// What a message calls the words.
const COMMAND_LINE: &str = "the command line";

/// Does what the words of the command line ask for, and returns the status to exit with: that of
/// `attempt` for a task, and of `stop` for help, the version and words that ask for nothing. For a
/// log that is shown with its faults, or is converted, it is 0, and for one whose faults are
/// explained it is 0 or 1, as for a check; for a refused log it is 2. It is 3 too if what the words
/// ask for can't be done: a word names nothing, a log is to be read more than once and no file is
/// named, one option excludes or needs another, or the file to be made is there or is the log. It
/// is 4 if reading or writing failed, memory ran out, or a log changed between two readings.
///
/// What failed is reported on `error`, unless nobody reads `output` any more. If that was reading,
/// a second line says what couldn't be read, and why. For a refused log whose first bytes show that
/// it is another kind of file, a line on `error` says what to do with it. While a log is checked,
/// `progress` is told how far that is. No file is changed, but the one that a conversion makes.
pub fn run<H: Host, W: Output, E: ErrorStream, P: Progress>(
    alloc: Global,
    host: &mut H,
    output: &mut W,
    error: &mut E,
    progress: &mut P,
) -> u8
    ensures statuses { result ≤ 4 }
    ensures quiet { result ≤ 1 → Keeps (E.contents error.old) (E.contents error.new) }
    ensures unprinted { result ≡ 3 → Keeps (W.contents output.old) (W.contents output.new) }
    ensures passed { result ≡ 0 → IfSome (H.gives host.old).words (λ words.
        Passes words (H.gives host.old) (W.contents output.old) (W.contents output.new)) }
    ensures faulty { result ≡ 1 → IfSome (H.gives host.old).words (λ words.
        FindsFaults words (H.gives host.old) (W.contents output.old) (W.contents output.new)) }
    ensures refused { result ≡ 2 → IfSome (H.gives host.old).words (λ words. Refuses words (H.gives host.old)
        (W.contents output.old) (W.contents output.new) (stream E.contents E.has_failed error.old error.new)) }
    // Also of a log that isn't known: no more than a hint is written to `error`.
    ensures hinted { result ≡ 2 → IsHinted None (stream E.contents E.has_failed error.old error.new) }
    ensures misused { result ≡ 3 → IfSome (H.gives host.old).words (λ words.
        IsMisuse words (H.gives host.old) (E.contents error.old) (E.contents error.new)) }
    ensures failed { result ≡ 4 → WordsUnread (H.gives host.old) (W.is_closed output.new)
        (W.contents output.old) (W.contents output.new) (stream E.contents E.has_failed error.old error.new)
        ⊎ IfSome (H.gives host.old).words (λ words. FailsWords words (H.gives host.old) (W.is_closed output.new)
        (W.contents output.old) (W.contents output.new) (stream E.contents E.has_failed error.old error.new)) }
    ensures done { H.did host.old [] → ((result ≡ 4) × H.did host.new [])
        ⊎ IfSome (H.gives host.old).words (λ words. DoesForWords words (H.gives host.old) result (H.did host.new)) }
{
    match host.arguments() {
        Ok(words) => respond(alloc, host, words.as_slice(), output, error, progress),
        Err(trouble) => trouble.report(COMMAND_LINE, output, error),
    }
}

// Does what these words ask for, and returns the status to exit with.
fn respond<S: AsStr, H: Host, W: Output, E: ErrorStream, P: Progress>(
    alloc: Global,
    host: &mut H,
    words: &[S],
    output: &mut W,
    error: &mut E,
    progress: &mut P,
) -> u8
    ensures statuses { result ≤ 4 }
    ensures quiet { result ≤ 1 → Keeps (E.contents error.old) (E.contents error.new) }
    ensures unprinted { result ≡ 3 → Keeps (W.contents output.old) (W.contents output.new) }
    ensures passed { result ≡ 0 → Passes (map S.text words.now) (H.gives host.old)
        (W.contents output.old) (W.contents output.new) }
    ensures faulty { result ≡ 1 → FindsFaults (map S.text words.now) (H.gives host.old)
        (W.contents output.old) (W.contents output.new) }
    ensures refused { result ≡ 2 → Refuses (map S.text words.now) (H.gives host.old)
        (W.contents output.old) (W.contents output.new) (stream E.contents E.has_failed error.old error.new) }
    ensures misused { result ≡ 3 → IsMisuse (map S.text words.now) (H.gives host.old)
        (E.contents error.old) (E.contents error.new) }
    ensures failed { result ≡ 4 → FailsWords (map S.text words.now) (H.gives host.old) (W.is_closed output.new)
        (W.contents output.old) (W.contents output.new) (stream E.contents E.has_failed error.old error.new) }
    ensures done { H.did host.old [] → DoesForWords (map S.text words.now) (H.gives host.old) result (H.did host.new) }
{
    match parse(alloc, words) {
        Ok(work) => work_on(alloc, host, &work, output, error, progress),
        Err(why) => stop(&why, output, error),
    }
}

// Does the work, and returns the status to exit with.
fn work_on<H: Host, W: Output, E: ErrorStream, P: Progress>(
    alloc: Global,
    host: &mut H,
    work: &Work,
    output: &mut W,
    error: &mut E,
    progress: &mut P,
) -> u8
    ensures statuses { result ≤ 4 }
    ensures quiet { result ≤ 1 → Keeps (E.contents error.old) (E.contents error.new) }
    ensures unprinted { result ≡ 3 → Keeps (W.contents output.old) (W.contents output.new) }
    ensures passed { result ≡ 0 → PassesWork (H.gives host.old) work.now (W.contents output.old) (W.contents output.new) }
    ensures faulty { result ≡ 1 → FindsFaultsIn (H.gives host.old) work.now (W.contents output.old) (W.contents output.new) }
    ensures refused { result ≡ 2 → RefusesWork (H.gives host.old) work.now
        (W.contents output.old) (W.contents output.new) (stream E.contents E.has_failed error.old error.new) }
    ensures misused { result ≡ 3 → MisusesWork (H.gives host.old) work.now (E.contents error.old) (E.contents error.new) }
    ensures failed { result ≡ 4 → FailsWork (H.gives host.old) work.now (W.is_closed output.new)
        (W.contents output.old) (W.contents output.new) (stream E.contents E.has_failed error.old error.new) }
    ensures done { H.did host.old [] → DoesForWork (H.gives host.old) work.now result (H.did host.new) }
{
    match work {
        Work::Once(task) => read_and_do(alloc, host, task, output, error, progress),
        Work::Again(asked) => review(alloc, host, asked, output, error),
        Work::Why(asked) => inquire(alloc, host, asked, output, error),
        Work::Convert(asked) => convert_file(alloc, host, asked, output, error),
    }
}

// Does the task on the log that it names, or on its other input, unless the words choose no
// statements, and returns the status to exit with.
fn read_and_do<H: Host, W: Output, E: ErrorStream, P: Progress>(
    alloc: Global,
    host: &H,
    task: &Task,
    output: &mut W,
    error: &mut E,
    progress: &mut P,
) -> u8
    ensures statuses { result ≤ 4 }
    ensures quiet { result ≤ 1 → Keeps (E.contents error.old) (E.contents error.new) }
    ensures unprinted { result ≡ 3 → Keeps (W.contents output.old) (W.contents output.new) }
    ensures passed { result ≡ 0 → HasPassed task.now (input_of (H.gives host.now) task.now) }
    ensures faulty { result ≡ 1 → HasFailed task.now (input_of (H.gives host.now) task.now) }
    ensures reported { result ≤ 1 → IsReportedOn task.now (input_of (H.gives host.now) task.now)
        (W.contents output.old) (W.contents output.new) }
    ensures refused { result ≡ 2 → IsRefusedOn task.now (input_of (H.gives host.now) task.now)
        (W.contents output.old) (W.contents output.new) }
    ensures hinted { result ≡ 2 → IsHinted (input_of (H.gives host.now) task.now)
        (stream E.contents E.has_failed error.old error.new) }
    ensures misused { result ≡ 3 → MisusesTask task.now (input_of (H.gives host.now) task.now)
        (E.contents error.old) (E.contents error.new) }
    ensures failed { result ≡ 4 → FailsRead (H.gives host.now) task.now (W.is_closed output.new)
        (W.contents output.old) (W.contents output.new) (stream E.contents E.has_failed error.old error.new) }
{
    match misuse_of(task) {
        Some(misuse) => misuse.report(alloc, error),
        None => open_and_do(alloc, host, task, output, error, progress),
    }
}

// Does the task on the log that it names, or on its other input, and returns the status to exit
// with.
fn open_and_do<H: Host, W: Output, E: ErrorStream, P: Progress>(
    alloc: Global,
    host: &H,
    task: &Task,
    output: &mut W,
    error: &mut E,
    progress: &mut P,
) -> u8
    ensures statuses { result ≤ 4 }
    ensures quiet { result ≤ 1 → Keeps (E.contents error.old) (E.contents error.new) }
    ensures unprinted { result ≡ 3 → Keeps (W.contents output.old) (W.contents output.new) }
    ensures passed { result ≡ 0 → HasPassed task.now (input_of (H.gives host.now) task.now) }
    ensures faulty { result ≡ 1 → HasFailed task.now (input_of (H.gives host.now) task.now) }
    ensures reported { result ≤ 1 → IsReportedOn task.now (input_of (H.gives host.now) task.now)
        (W.contents output.old) (W.contents output.new) }
    ensures refused { result ≡ 2 → IsRefusedOn task.now (input_of (H.gives host.now) task.now)
        (W.contents output.old) (W.contents output.new) }
    ensures hinted { result ≡ 2 → IsHinted (input_of (H.gives host.now) task.now)
        (stream E.contents E.has_failed error.old error.new) }
    ensures misused { result ≡ 3 → MisusesTask task.now (input_of (H.gives host.now) task.now)
        (E.contents error.old) (E.contents error.new) }
    ensures failed { result ≡ 4 → FailsRead (H.gives host.now) task.now (W.is_closed output.new)
        (W.contents output.old) (W.contents output.new) (stream E.contents E.has_failed error.old error.new) }
{
    match task.path() {
        Some(path) => match host.open(path) {
            Ok(file) => do_on(alloc, task, path, file, output, error, progress),
            Err(trouble) => trouble.report(path, output, error),
        },
        None => {
            if task.reads_input() {
                do_on(
                    alloc,
                    task,
                    STANDARD_INPUT,
                    host.input(),
                    output,
                    error,
                    progress,
                )
            } else {
                do_from(
                    alloc,
                    task,
                    STANDARD_INPUT,
                    b"",
                    host.input(),
                    output,
                    error,
                    progress,
                )
            }
        }
    }
}

// Does the task on the log that a reader gives, and returns the status to exit with. Messages call
// the reader by this name.
fn do_on<R: Read + Drop, W: Output, E: ErrorStream, P: Progress>(
    alloc: Global,
    task: &Task,
    place: &str,
    input: R,
    output: &mut W,
    error: &mut E,
    progress: &mut P,
) -> u8
    ensures statuses { result ≤ 4 }
    ensures quiet { result ≤ 1 → Keeps (E.contents error.old) (E.contents error.new) }
    ensures unprinted { result ≡ 3 → Keeps (W.contents output.old) (W.contents output.new) }
    ensures passed { result ≡ 0 → HasPassed task.now (R.remaining input) }
    ensures faulty { result ≡ 1 → HasFailed task.now (R.remaining input) }
    ensures reported { result ≤ 1 → IsReportedOn task.now (R.remaining input) (W.contents output.old) (W.contents output.new) }
    ensures refused { result ≡ 2 → IsRefusedOn task.now (R.remaining input) (W.contents output.old) (W.contents output.new) }
    ensures hinted { result ≡ 2 → IsHinted (R.remaining input) (stream E.contents E.has_failed error.old error.new) }
    ensures misused { result ≡ 3 → MisusesTask task.now (R.remaining input)
        (E.contents error.old) (E.contents error.new) }
    ensures failed { result ≡ 4 → FailsLog task.now place.now (R.remaining input) (W.is_closed output.new)
        (W.contents output.old) (W.contents output.new) (stream E.contents E.has_failed error.old error.new) }
{
    let mut input = input;
    match read_start(alloc, &mut input) {
        Ok(start) => do_from(
            alloc,
            task,
            place,
            start.as_slice(),
            input,
            output,
            error,
            progress,
        ),
        Err(trouble) => trouble.report(place, output, error),
    }
}

// Does a task on the log that begins with these bytes and goes on with what `input` gives, and
// returns the status.
fn do_from<R: Read + Drop, W: Output, E: ErrorStream, P: Progress>(
    alloc: Global,
    task: &Task,
    place: &str,
    start: &[u8],
    input: R,
    output: &mut W,
    error: &mut E,
    progress: &mut P,
) -> u8
    ensures statuses { result ≤ 4 }
    ensures quiet { result ≤ 1 → Keeps (E.contents error.old) (E.contents error.new) }
    ensures unprinted { result ≡ 3 → Keeps (W.contents output.old) (W.contents output.new) }
    ensures passed { result ≡ 0 → HasPassed task.now (prepend_known start.now (R.remaining input)) }
    ensures faulty { result ≡ 1 → HasFailed task.now (prepend_known start.now (R.remaining input)) }
    ensures reported { result ≤ 1 → IsReportedOn task.now (prepend_known start.now (R.remaining input))
        (W.contents output.old) (W.contents output.new) }
    ensures refused { result ≡ 2 → IsRefusedOn task.now (prepend_known start.now (R.remaining input))
        (W.contents output.old) (W.contents output.new) }
    ensures hinted { result ≡ 2 → IsTold (stream E.contents E.has_failed error.old error.new) (hint_line start.now) }
    ensures misused { result ≡ 3 → MisusesTask task.now (prepend_known start.now (R.remaining input))
        (E.contents error.old) (E.contents error.new) }
    ensures failed { result ≡ 4 → FailsTaskOn task.now place.now (prepend_known start.now (R.remaining input)) (W.is_closed output.new)
        (W.contents output.old) (W.contents output.new) (stream E.contents E.has_failed error.old error.new) }
{
    let mut log = Noting::new(start.chain(input));
    match attempt(alloc, task, &mut log, output, progress) {
        Ok(REFUSED) => {
            give_hint(start, error);
            REFUSED
        }
        Ok(status) => status,
        Err(Obstacle::Failed(failure)) => {
            Trouble::of(failure, log.reason()).report(place, output, error)
        }
        Err(Obstacle::Misused(misuse)) => misuse.report(alloc, error),
    }
}
