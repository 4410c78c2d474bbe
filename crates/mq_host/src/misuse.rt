//! What the words ask for in vain, and the messages that say so.
ghost use Rattle.std.specs.Prelude.{◌≡◌, ◌⊎◌, ◌++◌, ◌∷◌, IfOk, codes, string_bytes};
ghost use Rattle.std.specs.Io.KnownBytes.{Appends};
ghost use Rattle.mq_command.specs.Digits.{oddity_line};
ghost use Rattle.mq_host.specs.Streams.{IsCutOff, IsTold, choices_line, failure_line, misuse_line, no_statement_line, stream};

use crate::error_stream::ErrorStream;
use crate::failure::{FAILED, Failure, MISUSED};
use mq_command::Oddity;
use mq_explain::add_all_codes;
use std::alloc::{AllocError, Global};

/// Why what the words ask for can't be done.
#[derive(Clone, Copy)]
pub enum Misuse<'a> {
    /// The digits of a packet spell no bytes, since this is odd in them.
    NotHex(Oddity),
    /// There is more text on standard input than is taken.
    TooLong,
    /// The word isn't an end.
    NoRole(&'a str),
    /// The word is neither a statement's code nor a citation.
    NoStatement(&'a str),
    /// A number of positions is given, but faults aren't asked for.
    NoFaults,
    /// The further statements are asked for too, but faults aren't.
    NoFaultsForAll,
    /// No file is named that can be read twice.
    NoFile,
    /// The word isn't a number of positions.
    NoNumber(&'a str),
    /// It is asked for what faults conflict with, but no file is named that can be read twice.
    NoFileForWhy,
    /// It is asked for two reports: with what faults conflict with, and with what was tested.
    TwoReports,
    /// A list of statements has this word, which names none.
    NoStatements(&'a str),
    /// A list leaves no statement.
    NoChoice,
    /// Statements are chosen by a list, and the further ones are asked for too.
    TwoChoices,
    /// The log that is to be converted and the file that is to be made are the same.
    SameFile,
    /// There is something at the path of the file that is to be made.
    OutExists(&'a str),
}

impl Misuse<'_> {
    /// Writes to `error` why it can't be done, and what there is in place of a word that names
    /// nothing. Returns the status to exit with: 3, or 4 if that couldn't be written.
    pub fn report<E: ErrorStream>(self, alloc: Global, error: &mut E) -> u8
        ensures printed { result ≡ MISUSED → Appends (E.contents error.old) (E.contents error.new) (misuse_line self.entry) }
        ensures failed { result ≡ FAILED → IsCutOff (stream E.contents E.has_failed error.old error.new) (misuse_line self.entry)
            ⊎ IsTold (stream E.contents E.has_failed error.old error.new) (failure_line Failure.Memory) }
        ensures statuses { (result ≡ MISUSED) ⊎ (result ≡ FAILED) }
    {
        match self {
            Misuse::NotHex(odd) => refuse_digits(alloc, odd, error),
            Misuse::TooLong => write_misuse(
                "mqjudge: standard input has more than 134217728 bytes, the most that packet takes\n",
                error,
            ),
            Misuse::NoRole(word) => refuse_word(
                alloc,
                "mqjudge: no role ",
                word,
                "mqjudge: there are client and server\n",
                error,
            ),
            Misuse::NoStatement(word) => refuse_statement(alloc, word, error),
            Misuse::NoFaults => write_misuse("mqjudge: --around needs --faults\n", error),
            Misuse::NoFaultsForAll => write_misuse(
                "mqjudge: --all and --times need --faults\n",
                error,
            ),
            Misuse::NoFile => write_misuse(
                "mqjudge: --faults reads the log more than once, so it needs a FILE, not standard input\n",
                error,
            ),
            Misuse::NoNumber(word) => refuse_word(alloc, "mqjudge: no number ", word, "", error),
            Misuse::NoFileForWhy => write_misuse(
                "mqjudge: --why may read the log twice, so it needs a FILE, not standard input\n",
                error,
            ),
            Misuse::TwoReports => write_misuse(
                "mqjudge: --why and --coverage are two reports: ask for one at a time\n",
                error,
            ),
            Misuse::NoStatements(word) => refuse_list(
                alloc,
                "mqjudge: no statements ",
                word,
                error,
            ),
            Misuse::NoChoice => refuse_list(
                alloc,
                "mqjudge: --statements leaves no statement",
                "",
                error,
            ),
            Misuse::TwoChoices => write_misuse(
                "mqjudge: --all, --times and --statements choose statements: give one of them\n",
                error,
            ),
            Misuse::SameFile => write_misuse(
                "mqjudge: OUT has to be another file than IN\n",
                error,
            ),
            Misuse::OutExists(path) => refuse_word(
                alloc,
                "mqjudge: OUT exists: ",
                path,
                "mqjudge: with --force it is emptied and written\n",
                error,
            ),
        }
    }
}

// Writes to `error` what can't be done, and returns the status.
fn write_misuse<E: ErrorStream>(text: &str, error: &mut E) -> u8
    ensures printed { result ≡ MISUSED → Appends (E.contents error.old) (E.contents error.new) text.now }
    ensures failed { result ≡ FAILED → IsCutOff (stream E.contents E.has_failed error.old error.new) text.now }
    ensures statuses { (result ≡ MISUSED) ⊎ (result ≡ FAILED) }
{
    match error.write_message(text) {
        Ok(()) => MISUSED,
        Err(_) => FAILED,
    }
}

// Writes what is odd in digits, and returns the status.
fn refuse_digits<E: ErrorStream>(alloc: Global, odd: Oddity, error: &mut E) -> u8
    ensures printed { result ≡ MISUSED → Appends (E.contents error.old) (E.contents error.new) (oddity_line odd) }
    ensures failed { result ≡ FAILED → IsCutOff (stream E.contents E.has_failed error.old error.new) (oddity_line odd)
        ⊎ IsTold (stream E.contents E.has_failed error.old error.new) (failure_line Failure.Memory) }
    ensures statuses { (result ≡ MISUSED) ⊎ (result ≡ FAILED) }
{
    match odd.line(alloc) {
        Ok(line) => write_misuse(line.as_str(), error),
        Err(_) => Failure::Memory.report(error),
    }
}

// Writes that a word names nothing, in a line that begins with `start`, and then what there is, and
// returns the status.
fn refuse_word<E: ErrorStream>(
    alloc: Global,
    start: &str,
    word: &str,
    others: &str,
    error: &mut E,
) -> u8
    ensures printed { result ≡ MISUSED
        → Appends (E.contents error.old) (E.contents error.new) (start.now ++ (word.now ++ (codes "\n" ++ others.now))) }
    ensures failed { result ≡ FAILED
        → IsCutOff (stream E.contents E.has_failed error.old error.new) (start.now ++ (word.now ++ (codes "\n" ++ others.now)))
        ⊎ IsTold (stream E.contents E.has_failed error.old error.new) (failure_line Failure.Memory) }
    ensures statuses { (result ≡ MISUSED) ⊎ (result ≡ FAILED) }
{
    match lines_on(alloc, start, word, others) {
        Ok(lines) => write_misuse(lines.as_str(), error),
        Err(_) => Failure::Memory.report(error),
    }
}

// A line that begins with `start` and ends with the word, and then the others.
fn lines_on(alloc: Global, start: &str, word: &str, others: &str) -> Result<String, AllocError>
    ensures { IfOk result (λ lines. string_bytes lines ≡ start.now ++ (word.now ++ (codes "\n" ++ others.now))) }
{
    let mut lines = String::new(alloc);
    lines.push_str(start)?;
    lines.push_str(word)?;
    lines.push_str("\n")?;
    lines.push_str(others)?;
    Ok(lines)
}

// Writes what is wrong with a list of statements, in a line of this and a word, and then what a
// list may have, and returns the status.
fn refuse_list<E: ErrorStream>(alloc: Global, start: &str, word: &str, error: &mut E) -> u8
    ensures printed { result ≡ MISUSED
        → Appends (E.contents error.old) (E.contents error.new) (start.now ++ (word.now ++ choices_line)) }
    ensures failed { result ≡ FAILED
        → IsCutOff (stream E.contents E.has_failed error.old error.new) (start.now ++ (word.now ++ choices_line))
        ⊎ IsTold (stream E.contents E.has_failed error.old error.new) (failure_line Failure.Memory) }
    ensures statuses { (result ≡ MISUSED) ⊎ (result ≡ FAILED) }
{
    match list_lines(alloc, start, word) {
        Ok(lines) => write_misuse(lines.as_str(), error),
        Err(_) => Failure::Memory.report(error),
    }
}

// A line of this and a word, and one that says what a list of statements may have.
fn list_lines(alloc: Global, start: &str, word: &str) -> Result<String, AllocError>
    ensures { IfOk result (λ lines. string_bytes lines ≡ start.now ++ (word.now ++ choices_line)) }
{
    let choices = choices_text(alloc)?;
    lines_on(alloc, start, word, choices.as_str())
}

// The line that says what a list of statements may have.
fn choices_text(alloc: Global) -> Result<String, AllocError>
    ensures { IfOk result (λ text. 10 ∷ string_bytes text ≡ choices_line) }
{
    let mut text = String::new(alloc);
    text.push_str("mqjudge: there are default, all, times,")?;
    add_all_codes(&mut text)?;
    text.push_str(
        ", and a family for each letter that codes begin with: see mqjudge rules --times\n",
    )?;
    Ok(text)
}

// Writes that a word names no statement, and then the codes of all, and returns the status.
fn refuse_statement<E: ErrorStream>(alloc: Global, word: &str, error: &mut E) -> u8
    ensures printed { result ≡ MISUSED
        → Appends (E.contents error.old) (E.contents error.new) (no_statement_line word.now) }
    ensures failed { result ≡ FAILED
        → IsCutOff (stream E.contents E.has_failed error.old error.new) (no_statement_line word.now)
        ⊎ IsTold (stream E.contents E.has_failed error.old error.new) (failure_line Failure.Memory) }
    ensures statuses { (result ≡ MISUSED) ⊎ (result ≡ FAILED) }
{
    match no_statement_lines(alloc, word) {
        Ok(lines) => write_misuse(lines.as_str(), error),
        Err(_) => Failure::Memory.report(error),
    }
}

// The lines that say that a word names no statement, and which statements there are.
fn no_statement_lines(alloc: Global, word: &str) -> Result<String, AllocError>
    ensures { IfOk result (λ lines. string_bytes lines ≡ no_statement_line word.now) }
{
    let mut lines = String::new(alloc);
    lines.push_str("mqjudge: no statement ")?;
    lines.push_str(word)?;
    lines.push_str("\nmqjudge: there are")?;
    add_all_codes(&mut lines)?;
    lines.push_str(", and citations such as MQTT-4.4.0-1: see mqjudge rules\n")?;
    Ok(lines)
}
