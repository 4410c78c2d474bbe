//! Parsing the words of a command line into a task.
ghost use Rattle.std.specs.Prelude.{◌≡◌, List, [], Some, codes, false, IfOk, IfErr, map, option_map, string_bytes, unwrap_or};
ghost use Rattle.clap.specs.Words.{HasKind, Kinds, Text, app_of, found_of, new_rule, rows_of, rule_of, subcommand_of, subcommand_rows_of, with_subcommand};
ghost use Rattle.clap.specs.declared.builder.command.Command.TheViews.{out-Command};
ghost use Rattle.mq_command.specs.CommandLine.{ReadsAsAsked, StopsFor, around_option, check_command, check_request, convert_command, convert_request, explain_command};
ghost use Rattle.mq_command.specs.CommandLine.{explain_request, word_faults, flag, form_in, is_true, mqjudge, packet_command, packet_request};
ghost use Rattle.mq_command.specs.CommandLine.{path_named, path_of, reads_input, request_by, request_of, required_operand, rules_command, scope_in, statements_option};
ghost use Rattle.mq_command.specs.CommandLine.{IsUsage, TellsOfMany, rules_request, show_command, show_request};
ghost use Rattle.mq_command.specs.Operands.{names_many_logs};

use crate::digits::{is_dash, spaced};
use crate::operands::names_many_logs;
use crate::scope::Scope;
use clap::error::ErrorKind;
use clap::{Arg, ArgAction, ArgMatches, Command, Error};
use std::alloc::{AllocError, Global};
use std::convert::AsStr;

const HELP: &str = "Statuses: 0 for a pass, 1 for faults, 2 for a refused log, 3 for misuse,\n\
    4 if reading or writing failed or memory ran out.\n\
    Example: mqjudge check session.log\n\
    The log's format: docs/LOG_FORMAT.md";

const CHECK_HELP: &str =
    "Statuses: 0 for no fault, 1 for faults, 2 for a refused log, 3 for misuse,\n\
    4 if reading or writing failed or memory ran out.\n\
    Example: mqjudge check --json session.log\n\
    The log's format: docs/LOG_FORMAT.md";

const SHOW_HELP: &str = "Statuses: 0 if the log was shown, 2 for a refused log, 3 for misuse,\n\
    4 if reading or writing failed or memory ran out.\n\
    Example: mqjudge show --faults --around 3 session.log\n\
    The log's format: docs/LOG_FORMAT.md";

const PACKET_HELP: &str = "Statuses: 0 for one packet, 1 for other bytes, 3 for misuse,\n\
    4 if reading or writing failed or memory ran out.\n\
    Examples: mqjudge packet 40 02 00 01\n\
    \x20         mqjudge packet 40:02:00:01\n\
    \x20         mqjudge packet - < hex.txt\n\
    The log's format: docs/LOG_FORMAT.md";

const RULES_HELP: &str = "Statuses: 0 if they were listed, 3 for misuse,\n\
    4 if writing failed or memory ran out.\n\
    Example: mqjudge rules --role client\n\
    The log's format: docs/LOG_FORMAT.md";

const EXPLAIN_HELP: &str = "Statuses: 0 if it was explained, 3 for misuse or an unknown word,\n\
    4 if writing failed or memory ran out.\n\
    Example: mqjudge explain S01\n\
    The log's format: docs/LOG_FORMAT.md";

const CONVERT_HELP: &str =
    "Statuses: 0 if the log was converted, 2 for a refused log, 3 for misuse,\n\
    4 if reading or writing failed or memory ran out.\n\
    Example: mqjudge convert session.log session-2.log\n\
    The log's format: docs/LOG_FORMAT.md";

/// What the program is asked to do.
#[derive(Debug, Drop)]
pub enum Work {
    /// A task that reads its log once, or no log.
    Once(Task),
    /// A review, which reads its log again.
    Again(Review),
    /// A check that reads a log with faults twice.
    Why(Inquiry),
    /// A conversion, which makes a log of the one that it reads.
    Convert(Conversion),
}

/// Convert a log of version 1 into one of version 2.
#[derive(Debug, Drop)]
pub struct Conversion {
    /// The path of the log that is read; `-` is standard input.
    pub input: String,
    /// The path of the log that is made.
    pub output: String,
    /// Whether a file at that path may be emptied and written.
    pub force: bool,
}

/// Show the events of a log with the faults at them: one reading finds the faults, and another one
/// shows the events.
#[derive(Debug, Drop)]
pub struct Review {
    /// The log's path. Standard input can't be read twice.
    pub file: Option<String>,
    /// Whether faults are asked for at all. Without them there is nothing to be near to.
    pub faults: bool,
    /// Show only the events that are at most this many positions from a fault: a number, in digits.
    pub around: Option<String>,
    /// Say what else each packet says.
    pub long: bool,
    /// Which statements are judged. Without faults nothing is judged.
    pub scope: Scope,
}

/// Judge a log and say what each fault conflicts with: one reading finds the faults, and another
/// one what they conflict with.
#[derive(Debug, Drop)]
pub struct Inquiry {
    /// The log's path. Standard input can't be read twice.
    pub file: Option<String>,
    /// The form of the report.
    pub form: Form,
    /// Whether it is also asked for how often each statement was put to the test. No report says
    /// both.
    pub coverage: bool,
    /// Which statements are judged, if there is no list.
    pub scope: Scope,
    /// The list of the statements whose faults are reported, if there is one.
    pub statements: Option<String>,
}

/// The form of the report that a check writes.
#[derive(Clone, Copy, Debug, PartialEq, Eq)]
pub enum Form {
    /// A line for each fault.
    Text,
    /// One line of JSON.
    Json,
    /// A line for each statement that has faults.
    Summary,
}

/// What is done with one reading of a log, or with none.
#[derive(Debug, Drop)]
pub enum Task {
    /// Judge the log in `file`, or on standard input if there is none or it is `-`.
    Check {
        /// The log's path.
        file: Option<String>,
        /// The form of the report.
        form: Form,
        /// Report how often each statement was put to the test too.
        coverage: bool,
        /// Which statements are judged, if there is no list.
        scope: Scope,
        /// The list of the statements whose faults are reported, if there is one.
        statements: Option<String>,
    },
    /// Show the events of the log in `file`, or on standard input if there is none or it is `-`.
    Show {
        /// The log's path.
        file: Option<String>,
        /// Say what else each packet says.
        long: bool,
    },
    /// Say which packet the bytes are that `hex` spells, or what is on standard input if it is `-`.
    Packet {
        /// Two hexadecimal digits for each byte. Between bytes there may be spaces, tabs, line
        /// ends, commas and colons, and `0x` before each.
        hex: String,
        /// Say what else the packet says, or what is wrong in its bytes.
        long: bool,
    },
    /// List the statements: those that bind the end that `role` names, or all if there is none.
    Rules {
        /// `client` or `server`.
        role: Option<String>,
        /// Which statements are listed, if there is no list of them.
        scope: Scope,
        /// The list of the statements that are listed, if there is one.
        statements: Option<String>,
    },
    /// Explain a statement, or all statements with a citation.
    Explain {
        /// The code or the citation, in capitals or not.
        code: String,
    },
}

impl Task {
    /// Whether the task reads its input: a log, or the digits of a packet.
    pub fn reads_input(&self) -> bool
        ensures { result ≡ reads_input self.now }
    {
        match self {
            Task::Check { .. } | Task::Show { .. } => true,
            Task::Packet { hex, .. } => is_dash(hex.as_str()),
            Task::Rules { .. } | Task::Explain { .. } => false,
        }
    }

    /// The path of the log that the task reads: `None` if it reads standard input, which `-` means
    /// too, and for other tasks.
    pub fn path(&self) -> Option<&str>
        ensures { option_map (λ path. path.now) result ≡ path_of self.now }
    {
        match self {
            Task::Check { file, .. } => path_named(file),
            Task::Show { file, .. } => path_named(file),
            Task::Packet { .. } | Task::Rules { .. } | Task::Explain { .. } => None,
        }
    }
}

/// The path that an operand names, if it names one: `-` doesn't.
pub fn path_named(file: &Option<String>) -> Option<&str>
    ensures { option_map (λ path. path.now) result ≡ path_named (option_map string_bytes file.now) }
{
    match file {
        Some(path) if path.as_str() != "-" => Some(path.as_str()),
        _ => None,
    }
}

/// Why there is no task to do.
#[derive(Debug, Drop)]
pub enum EarlyExit {
    /// Help or the version was asked for: the text is for standard output, with status 0.
    Help(String),
    /// The words aren't a command line of the program: the text says why, and is for standard
    /// error, with status 3.
    Usage(String),
    /// Memory ran out.
    Memory,
}

/// Reads the words of a command line, `mqjudge check [--json] [--summary] [--coverage] [--why]
/// [--all] [--times] [--statements LIST] [FILE]`, `mqjudge show [--long] [--faults] [--around N]
/// [--all] [--times] [FILE]`, `mqjudge packet [--long] HEX..`, `mqjudge rules [--role ROLE] [--all]
/// [--times] [--statements LIST]`, `mqjudge explain CODE` or `mqjudge convert [--force] IN OUT`, of
/// which the first is the program's name. A request for help or the version is returned as a
/// `EarlyExit`, and so are words that aren't such a command line.
pub fn parse<S: AsStr>(alloc: Global, words: &[S]) -> Result<Work, EarlyExit>
    ensures taken { IfOk result (λ _. word_faults (map S.text words.now) ≡ []) }
    ensures work { IfOk result (λ work.
        request_of (map S.text words.now) ≡ Some (request_by work)) }
    ensures readings { IfOk result ReadsAsAsked }
    ensures stop { IfErr result (StopsFor (word_faults (map S.text words.now))) }
    ensures many { IfErr result (TellsOfMany (map S.text words.now)) }
{
    match matches_of(alloc, words) {
        Ok(matches) => match matches.subcommand_matches("check") {
            Some(check) => check_task(
                alloc,
                check.get_str("FILE"),
                form_in(check),
                is_true(check.get_str("coverage")),
                is_true(check.get_str("why")),
                scope_in(check),
                check.get_str("LIST"),
            ),
            None => match matches.subcommand_matches("show") {
                Some(show) => show_task(
                    alloc,
                    show.get_str("FILE"),
                    is_true(show.get_str("long")),
                    is_true(show.get_str("faults")),
                    show.get_str("N"),
                    scope_in(show),
                ),
                None => match matches.subcommand_matches("packet") {
                    Some(packet) => packet_task(
                        alloc,
                        packet.get_strs("HEX"),
                        is_true(packet.get_str("long")),
                    ),
                    None => match matches.subcommand_matches("rules") {
                        Some(rules) => rules_task(
                            alloc,
                            rules.get_str("role"),
                            scope_in(rules),
                            rules.get_str("LIST"),
                        ),
                        None => match matches.subcommand_matches("explain") {
                            Some(explain) => explain_task(alloc, explain.get_str("CODE")),
                            None => match matches.subcommand_matches("convert") {
                                Some(convert) => convert_task(
                                    alloc,
                                    convert.get_str("IN"),
                                    convert.get_str("OUT"),
                                    is_true(convert.get_str("force")),
                                ),
                                None => unreachable!(),
                            },
                        },
                    },
                },
            },
        },
        Err(error) => Err(with_hint(stop_for(alloc, &error), names_many_logs(words))),
    }
}

// The stop, and if the words name many logs, where those are judged.
fn with_hint(stop: EarlyExit, many: bool) -> EarlyExit
    ensures same { (kinds : Kinds) → StopsFor kinds stop → StopsFor kinds result }
    ensures many { (words : List Text) → many ≡ names_many_logs words → TellsOfMany words result }
{
    match stop {
        EarlyExit::Usage(text) => usage(text, many),
        EarlyExit::Help(text) => EarlyExit::Help(text),
        EarlyExit::Memory => EarlyExit::Memory,
    }
}

// A misuse with this text, and if the words name many logs, where those are judged.
fn usage(text: String, many: bool) -> EarlyExit
    ensures { IsUsage text many result }
{
    let mut text = text;
    if !many {
        return EarlyExit::Usage(text);
    }
    match text.push_str("mqjudge: check takes one log; recorders/judge takes many\n") {
        Ok(()) => EarlyExit::Usage(text),
        Err(_) => EarlyExit::Memory,
    }
}

// The matches of the words, by the definition of the command line.
fn matches_of<'a, S: AsStr>(alloc: Global, words: &'a [S]) -> Result<ArgMatches<'a>, Error>
    ensures taken { IfOk result (λ _. word_faults (map S.text words.now) ≡ []) }
    ensures met { IfOk result (λ matches.
        subcommand_rows_of matches ≡ subcommand_of mqjudge (map S.text words.now)) }
    ensures fault { IfErr result (HasKind (word_faults (map S.text words.now))) }
{
    command_line(alloc)?.try_get_matches_from(words)
}

// The definition of the command line.
fn command_line<'a>(alloc: Global) -> Result<Command<'a>, AllocError>
    ensures { IfOk result (λ command. app_of command ≡ mqjudge) }
{
    let top = Command::new(alloc, "mqjudge")
        .about("Judges the log of one end of an MQTT 5.0 session")
        .version("0.1.0 (reads log versions 1 and 2, judges 74 statements)")
        .after_help(HELP)
        .subcommand_required(true);
    let with_some = with_check_show_and_packet(alloc, top)?;
    with_rules_explain_and_convert(alloc, with_some)
}

// Adds `check`, `show` and `packet`. Each is added as soon as it is made: one that waited would be
// dropped at each exit in between, and a command is much to drop.
fn with_check_show_and_packet<'a>(
    alloc: Global,
    top: Command<'a>,
) -> Result<Command<'a>, AllocError>
    ensures { IfOk result (λ command. app_of command
        ≡ with_subcommand (with_subcommand (with_subcommand (app_of top.entry) check_command.top) show_command.top) packet_command.top) }
{
    let check = check_command(alloc)?;
    let with_check = top.subcommand(check)?;
    let show = show_command(alloc)?;
    let with_show = with_check.subcommand(show)?;
    let packet = packet_command(alloc)?;
    with_show.subcommand(packet)
}

// Adds `rules`, `explain` and `convert`.
fn with_rules_explain_and_convert<'a>(
    alloc: Global,
    top: Command<'a>,
) -> Result<Command<'a>, AllocError>
    ensures { IfOk result (λ command. app_of command
        ≡ with_subcommand (with_subcommand (with_subcommand (app_of top.entry) rules_command.top) explain_command.top) convert_command.top) }
{
    let rules = rules_command(alloc)?;
    let with_rules = top.subcommand(rules)?;
    let explain = explain_command(alloc)?;
    let with_explain = with_rules.subcommand(explain)?;
    let convert = convert_command(alloc)?;
    with_explain.subcommand(convert)
}

// The definition of `check`.
fn check_command<'a>(alloc: Global) -> Result<Command<'a>, AllocError>
    ensures app { IfOk result (λ command. app_of command ≡ check_command) }
    ensures local { IfOk result (λ command. (out-Command command).has_globals ≡ false) }
{
    Command::new(alloc, "check")
        .about("Judges a log and reports each fault")
        .after_help(CHECK_HELP)
        .arg(log_operand(alloc))?
        .arg(flag(
            alloc,
            "json",
            "Report as one line of JSON, also with --summary",
        ))?
        .arg(flag(
            alloc,
            "summary",
            "Report a line for each statement that has faults",
        ))?
        .arg(flag(
            alloc,
            "coverage",
            "Say how often each statement was put to the test",
        ))?
        .arg(flag(
            alloc,
            "why",
            "Say what each fault conflicts with; reads FILE twice if it has faults",
        ))?
        .arg(flag(alloc, "all", "Judge the further statements too"))?
        .arg(flag(
            alloc,
            "times",
            "Judge those on times too: moments are microseconds",
        ))?
        .arg(statements_option(
            alloc,
            "Report the faults of these statements, such as default,F,-W13",
        ))
}

// The option `--statements LIST` of `check` and `rules`.
fn statements_option<'a>(alloc: Global, help: &'a str) -> Arg<'a>
    ensures rule { rule_of result ≡ statements_option }
    ensures local { result.global ≡ false }
{
    Arg::new(alloc, "LIST").help(help).long("statements")
}

// The definition of `show`.
fn show_command<'a>(alloc: Global) -> Result<Command<'a>, AllocError>
    ensures app { IfOk result (λ command. app_of command ≡ show_command) }
    ensures local { IfOk result (λ command. (out-Command command).has_globals ≡ false) }
{
    Command::new(alloc, "show")
        .about("Shows each event of a log")
        .after_help(SHOW_HELP)
        .arg(log_operand(alloc))?
        .arg(flag(
            alloc,
            "long",
            "Show the other fields and the properties of each packet",
        ))?
        .arg(flag(
            alloc,
            "faults",
            "Show the faults under their events; reads FILE more than once",
        ))?
        .arg(around_option(alloc))?
        .arg(flag(
            alloc,
            "all",
            "With --faults: judge the further statements too",
        ))?
        .arg(flag(
            alloc,
            "times",
            "With --faults: as --all, and by those on times",
        ))
}

// The option `--around N` of `show`.
fn around_option<'a>(alloc: Global) -> Arg<'a>
    ensures rule { rule_of result ≡ around_option }
    ensures local { result.global ≡ false }
{
    Arg::new(alloc, "N")
        .help("With --faults: only the events within N positions of a fault")
        .long("around")
}

// The operand that names a log.
fn log_operand<'a>(alloc: Global) -> Arg<'a>
    ensures rule { rule_of result ≡ new_rule (codes "FILE") }
    ensures local { result.global ≡ false }
{
    Arg::new(alloc, "FILE").help("The log; standard input if it is missing or `-`")
}

// A flag of this name.
fn flag<'a>(alloc: Global, name: &'a str, help: &'a str) -> Arg<'a>
    ensures rule { rule_of result ≡ flag name.now }
    ensures local { result.global ≡ false }
{
    Arg::new(alloc, name)
        .help(help)
        .long(name)
        .action(ArgAction::SetTrue)
}

// The definition of `packet`.
fn packet_command<'a>(alloc: Global) -> Result<Command<'a>, AllocError>
    ensures app { IfOk result (λ command. app_of command ≡ packet_command) }
    ensures local { IfOk result (λ command. (out-Command command).has_globals ≡ false) }
{
    let hex = Arg::new(alloc, "HEX")
        .help("The packet's bytes in hexadecimal digits; `-` reads them from standard input")
        .required(true)
        .num_args(1..);
    Command::new(alloc, "packet")
        .about("Says which packet some bytes are")
        .after_help(PACKET_HELP)
        .arg(hex)?
        .arg(flag(
            alloc,
            "long",
            "Show its fields and properties, or what is wrong in its bytes",
        ))
}

// The definition of `rules`.
fn rules_command<'a>(alloc: Global) -> Result<Command<'a>, AllocError>
    ensures app { IfOk result (λ command. app_of command ≡ rules_command) }
    ensures local { IfOk result (λ command. (out-Command command).has_globals ≡ false) }
{
    let role = Arg::new(alloc, "role")
        .help("Only the statements that bind this end: client or server")
        .long("role");
    Command::new(alloc, "rules")
        .about("Lists the statements")
        .after_help(RULES_HELP)
        .arg(role)?
        .arg(flag(alloc, "all", "List the further statements too"))?
        .arg(flag(alloc, "times", "List those on times too"))?
        .arg(statements_option(alloc, "List these statements, such as default,F,-W13"))
}

// The definition of `explain`.
fn explain_command<'a>(alloc: Global) -> Result<Command<'a>, AllocError>
    ensures app { IfOk result (λ command. app_of command ≡ explain_command) }
    ensures local { IfOk result (λ command. (out-Command command).has_globals ≡ false) }
{
    let code = Arg::new(alloc, "CODE").required(true).help(
        "The statement's code, such as S01, or its citation, such as MQTT-4.4.0-1",
    );
    Command::new(alloc, "explain")
        .about("Explains a statement, or those with a citation")
        .after_help(EXPLAIN_HELP)
        .arg(code)
}

// The definition of `convert`.
fn convert_command<'a>(alloc: Global) -> Result<Command<'a>, AllocError>
    ensures app { IfOk result (λ command. app_of command ≡ convert_command) }
    ensures local { IfOk result (λ command. (out-Command command).has_globals ≡ false) }
{
    Command::new(alloc, "convert")
        .about("Converts a log of version 1 into one of version 2")
        .after_help(CONVERT_HELP)
        .arg(required_operand(
            alloc,
            "IN",
            "The log of version 1; standard input if it is `-`",
        ))?
        .arg(required_operand(
            alloc,
            "OUT",
            "The file that is made, which isn't there yet; another one than IN",
        ))?
        .arg(flag(alloc, "force", "Empty and write OUT if it is there"))
}

// An operand of this name that has to be given.
fn required_operand<'a>(alloc: Global, name: &'a str, help: &'a str) -> Arg<'a>
    ensures rule { rule_of result ≡ required_operand name.now }
    ensures local { result.global ≡ false }
{
    Arg::new(alloc, name).help(help).required(true)
}

// Whether the value of a flag is `true`: it is if the flag is given, and else `false`.
fn is_true(value: Option<&str>) -> bool
    ensures { result ≡ is_true (option_map (λ text. text.now) value.entry) }
{
    match value {
        Some(text) => text == "true",
        None => false,
    }
}

// The form of the report that matches of `check` ask for: JSON, whatever `--summary` says.
fn form_in(check: &ArgMatches<'_>) -> Form
    ensures { result ≡ form_in (rows_of (found_of check.now)) }
{
    if is_true(check.get_str("json")) {
        return Form::Json;
    }
    if is_true(check.get_str("summary")) {
        Form::Summary
    } else {
        Form::Text
    }
}

// Which statements the matches of `check`, `show` or `rules` ask for: `--times` asks for all,
// whether `--all` is there or not.
fn scope_in(found: &ArgMatches<'_>) -> Scope
    ensures { result ≡ scope_in (rows_of (found_of found.now)) }
{
    if is_true(found.get_str("times")) {
        return Scope::Timed;
    }
    if is_true(found.get_str("all")) {
        Scope::All
    } else {
        Scope::Usual
    }
}

// The work of `check` on this operand, with a report in this form, with coverage or without, with
// what the faults conflict with or without, and by these statements or those of this list.
fn check_task(
    alloc: Global,
    file: Option<&str>,
    form: Form,
    coverage: bool,
    why: bool,
    scope: Scope,
    statements: Option<&str>,
) -> Result<Work, EarlyExit>
    ensures work { IfOk result (λ work.
        request_by work ≡ check_request (option_map (λ path. path.now) file.entry) form coverage why scope
        (option_map (λ list. list.now) statements.entry)) }
    ensures readings { IfOk result ReadsAsAsked }
    ensures stop { IfErr result (λ stop. stop ≡ EarlyExit.Memory) }
{
    let file = copy_word(alloc, file)?;
    let statements = copy_word(alloc, statements)?;
    if why {
        return Ok(Work::Why(Inquiry {
            file,
            form,
            coverage,
            scope,
            statements,
        }));
    }
    Ok(Work::Once(Task::Check {
        file,
        form,
        coverage,
        scope,
        statements,
    }))
}

// The work of `show` on this operand, with these flags and this number, and by these statements.
fn show_task(
    alloc: Global,
    file: Option<&str>,
    long: bool,
    faults: bool,
    around: Option<&str>,
    scope: Scope,
) -> Result<Work, EarlyExit>
    ensures work { IfOk result (λ work.
        request_by work ≡ show_request (option_map (λ path. path.now) file.entry) long faults
        (option_map (λ number. number.now) around.entry) scope) }
    ensures readings { IfOk result ReadsAsAsked }
    ensures stop { IfErr result (λ stop. stop ≡ EarlyExit.Memory) }
{
    let file = copy_word(alloc, file)?;
    let around = copy_word(alloc, around)?;
    if !faults && around.is_none() && !scope.has_further() {
        return Ok(Work::Once(Task::Show { file, long }));
    }
    Ok(Work::Again(Review {
        file,
        faults,
        around,
        long,
        scope,
    }))
}

// The task of `packet` on these operands and with this flag; if there are none, on no digits.
fn packet_task(alloc: Global, words: Option<&[&str]>, long: bool) -> Result<Work, EarlyExit>
    ensures work { IfOk result (λ work.
        request_by work ≡ packet_request (option_map (λ words. map (λ word. word.now) words.now) words.entry) long) }
    ensures readings { IfOk result ReadsAsAsked }
    ensures stop { IfErr result (λ stop. stop ≡ EarlyExit.Memory) }
{
    match spaced(alloc, words.unwrap_or(&[])) {
        Ok(hex) => Ok(Work::Once(Task::Packet { hex, long })),
        Err(_) => Err(EarlyExit::Memory),
    }
}

// The task of `rules` for this end, of these statements or of this list.
fn rules_task(
    alloc: Global,
    role: Option<&str>,
    scope: Scope,
    statements: Option<&str>,
) -> Result<Work, EarlyExit>
    ensures work { IfOk result (λ work.
        request_by work ≡ rules_request (option_map (λ word. word.now) role.entry) scope
        (option_map (λ list. list.now) statements.entry)) }
    ensures readings { IfOk result ReadsAsAsked }
    ensures stop { IfErr result (λ stop. stop ≡ EarlyExit.Memory) }
{
    let role = copy_word(alloc, role)?;
    let statements = copy_word(alloc, statements)?;
    Ok(Work::Once(Task::Rules {
        role,
        scope,
        statements,
    }))
}

// The task of `explain` on this operand; a missing operand counts as an empty one.
fn explain_task(alloc: Global, code: Option<&str>) -> Result<Work, EarlyExit>
    ensures work { IfOk result (λ work.
        request_by work ≡ explain_request (option_map (λ text. text.now) code.entry)) }
    ensures readings { IfOk result ReadsAsAsked }
    ensures stop { IfErr result (λ stop. stop ≡ EarlyExit.Memory) }
{
    match String::from_str(alloc, code.unwrap_or("")) {
        Ok(code) => Ok(Work::Once(Task::Explain { code })),
        Err(_) => Err(EarlyExit::Memory),
    }
}

// The conversion of the log that these operands name, with this flag; a missing operand counts as
// an empty one.
fn convert_task(
    alloc: Global,
    input: Option<&str>,
    output: Option<&str>,
    force: bool,
) -> Result<Work, EarlyExit>
    ensures work { IfOk result (λ work.
        request_by work ≡ convert_request (option_map (λ word. word.now) input.entry) (option_map (λ word. word.now) output.entry) force) }
    ensures readings { IfOk result ReadsAsAsked }
    ensures stop { IfErr result (λ stop. stop ≡ EarlyExit.Memory) }
{
    let input = copy_operand(alloc, input)?;
    let output = copy_operand(alloc, output)?;
    Ok(Work::Convert(Conversion {
        input,
        output,
        force,
    }))
}

// A copy of an operand; a missing one counts as an empty one.
fn copy_operand(alloc: Global, word: Option<&str>) -> Result<String, EarlyExit>
    ensures copy { IfOk result (λ copy.
        string_bytes copy ≡ unwrap_or (option_map (λ text. text.now) word.entry) []) }
    ensures stop { IfErr result (λ stop. stop ≡ EarlyExit.Memory) }
{
    match String::from_str(alloc, word.unwrap_or("")) {
        Ok(copy) => Ok(copy),
        Err(_) => Err(EarlyExit::Memory),
    }
}

// A copy of a word, if there is one.
fn copy_word(alloc: Global, word: Option<&str>) -> Result<Option<String>, EarlyExit>
    ensures copy { IfOk result (λ copy.
        option_map string_bytes copy ≡ option_map (λ text. text.now) word.entry) }
    ensures stop { IfErr result (λ stop. stop ≡ EarlyExit.Memory) }
{
    match word {
        Some(word) => match String::from_str(alloc, word) {
            Ok(word) => Ok(Some(word)),
            Err(_) => Err(EarlyExit::Memory),
        },
        None => Ok(None),
    }
}

// What the caller gets if the words give no task.
fn stop_for(alloc: Global, error: &Error) -> EarlyExit
    ensures { (kinds : Kinds) → HasKind kinds error.now → StopsFor kinds result }
{
    match error.kind() {
        ErrorKind::OutOfMemory => EarlyExit::Memory,
        ErrorKind::DisplayHelp | ErrorKind::DisplayVersion => {
            error
                .to_string(alloc)
                .map_or(EarlyExit::Memory, EarlyExit::Help)
        }
        _ => error
            .to_string(alloc)
            .map_or(EarlyExit::Memory, EarlyExit::Usage),
    }
}
