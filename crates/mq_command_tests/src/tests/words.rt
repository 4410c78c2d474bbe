//! The words of each task, of help, and of misuse.
use mq_command::{EarlyExit, Form, Inquiry, Review, Scope, Task, Work, parse};
use std::alloc::Global;
use std::process::Abort;
use std::test::Fail;

const VERSION: &str = "mqjudge 0.1.0 (reads log versions 1 and 2, judges 74 statements)\n";

// The task that these words ask for, on one reading of a log or on none.
fn task_of(alloc: Global, words: &[&str]) -> Result<Task, EarlyExit> {
    match parse(alloc, words)? {
        Work::Once(task) => Ok(task),
        Work::Again(_) | Work::Why(_) | Work::Convert(_) => Err(EarlyExit::Usage(String::new(
            alloc,
        ))),
    }
}

// Whether these words ask for a check of this file, or of the input, with a report in this form,
// with coverage or without, and by these statements.
fn is_check_with(
    alloc: Global,
    words: &[&str],
    wanted: Option<&str>,
    report: (Form, bool, Scope),
) -> Result<bool, EarlyExit> {
    let Task::Check {
        file,
        form,
        coverage,
        scope,
        statements: None,
    } = task_of(alloc, words)?
    else {
        return Ok(false);
    };
    let path = file.as_ref().map(|path| path.as_str());
    Ok(path == wanted && (form, coverage, scope) == report)
}

// The words of a check, its file, and its report: its form, whether it has coverage, and by which
// statements it is.
type Check = (
    &'static [&'static str],
    Option<&'static str>,
    (Form, bool, Scope),
);

// Asserts that the words of each row ask for its check.
fn assert_checks(rt: &(impl Abort + AllocGlobal), rows: &[Check]) -> Result<(), Fail> {
    for (words, wanted, report) in rows {
        assert!(rt;
            is_check_with(rt.alloc(), words, *wanted, *report)?,
            "{words:?}"
        );
    }
    Ok(())
}

static CHECKS: [Check; 9] = [
    (
        &["mqjudge", "check"],
        None,
        (Form::Text, false, Scope::Usual),
    ),
    (
        &["mqjudge", "check", "a.log"],
        Some("a.log"),
        (Form::Text, false, Scope::Usual),
    ),
    (
        &["mqjudge", "check", "--", "--help"],
        Some("--help"),
        (Form::Text, false, Scope::Usual),
    ),
    (
        &["mqjudge", "check", "--json"],
        None,
        (Form::Json, false, Scope::Usual),
    ),
    (
        &["mqjudge", "check", "--summary", "a.log"],
        Some("a.log"),
        (Form::Summary, false, Scope::Usual),
    ),
    (
        &["mqjudge", "check", "--summary", "a.log", "--json"],
        Some("a.log"),
        (Form::Json, false, Scope::Usual),
    ),
    (
        &["mqjudge", "check", "--coverage"],
        None,
        (Form::Text, true, Scope::Usual),
    ),
    (
        &["mqjudge", "check", "a.log", "--coverage", "--json"],
        Some("a.log"),
        (Form::Json, true, Scope::Usual),
    ),
    (
        &["mqjudge", "check", "--coverage", "--summary", "-"],
        Some("-"),
        (Form::Summary, true, Scope::Usual),
    ),
];

#[test]
fn reads_the_words_of_a_check(rt: HostRuntime) -> Result<(), Fail> {
    assert_checks(&rt, &CHECKS)
}

static CHECKS_OF_ALL: [Check; 8] = [
    (
        &["mqjudge", "check", "--all"],
        None,
        (Form::Text, false, Scope::All),
    ),
    (
        &["mqjudge", "check", "--all", "a.log", "--json"],
        Some("a.log"),
        (Form::Json, false, Scope::All),
    ),
    (
        &["mqjudge", "check", "--coverage", "--summary", "--all", "-"],
        Some("-"),
        (Form::Summary, true, Scope::All),
    ),
    (
        &["mqjudge", "check", "--", "--all"],
        Some("--all"),
        (Form::Text, false, Scope::Usual),
    ),
    (
        &["mqjudge", "check", "--times", "a.log"],
        Some("a.log"),
        (Form::Text, false, Scope::Timed),
    ),
    (
        &["mqjudge", "check", "--all", "--times", "--coverage"],
        None,
        (Form::Text, true, Scope::Timed),
    ),
    (
        &["mqjudge", "check", "--times", "--json", "--all"],
        None,
        (Form::Json, false, Scope::Timed),
    ),
    (
        &["mqjudge", "check", "--", "--times"],
        Some("--times"),
        (Form::Text, false, Scope::Usual),
    ),
];

#[test]
fn reads_whether_a_check_is_of_all_statements(rt: HostRuntime) -> Result<(), Fail> {
    assert_checks(&rt, &CHECKS_OF_ALL)
}

// Whether these words ask for those of these statements that bind this end, or for all of them.
fn is_rules_of(
    alloc: Global,
    words: &[&str],
    wanted: Option<&str>,
    asked: Scope,
) -> Result<bool, EarlyExit> {
    match task_of(alloc, words)? {
        Task::Rules {
            role,
            scope,
            statements: None,
        } => { Ok(role.as_ref().map(|role| role.as_str()) == wanted && scope == asked) }
        _ => Ok(false),
    }
}

// The words of a list of statements, its end, and which statements it is of.
static LISTS: [(&[&str], Option<&str>, Scope); 6] = [
    (&["mqjudge", "rules"], None, Scope::Usual),
    (&["mqjudge", "rules", "--all"], None, Scope::All),
    (
        &["mqjudge", "rules", "--role", "client"],
        Some("client"),
        Scope::Usual,
    ),
    (
        &["mqjudge", "rules", "--all", "--role", "server"],
        Some("server"),
        Scope::All,
    ),
    (&["mqjudge", "rules", "--times"], None, Scope::Timed),
    (
        &["mqjudge", "rules", "--times", "--role", "client", "--all"],
        Some("client"),
        Scope::Timed,
    ),
];

#[test]
fn reads_the_words_of_a_list_of_statements(rt: HostRuntime) -> Result<(), Fail> {
    for (words, wanted, asked) in &LISTS {
        assert!(rt;
            is_rules_of(rt.alloc(), words, *wanted, *asked)?,
            "{words:?}"
        );
    }
    Ok(())
}

// Whether these words ask for help or the version, and it has this part.
fn is_help(alloc: Global, words: &[&str], part: &str) -> bool {
    match parse(alloc, words) {
        Err(EarlyExit::Help(text)) => text.as_str().contains(part),
        _ => false,
    }
}

// Words that are answered by a text, and a part of it.
type Answered = (&'static [&'static str], &'static str);

// Asserts that the words of each row ask for help or the version.
fn assert_help(rt: &(impl Abort + AllocGlobal), rows: &[Answered]) {
    for (words, part) in rows {
        assert!(rt; is_help(rt.alloc(), words, part), "{words:?}");
    }
}

static HELP: [Answered; 11] = [
    (&["mqjudge", "--help"], "Usage: mqjudge <COMMAND>"),
    (&["mqjudge", "-h"], "Usage: mqjudge <COMMAND>"),
    (&["mqjudge", "help"], "Usage: mqjudge <COMMAND>"),
    (
        &["mqjudge", "help", "check"],
        "Usage: mqjudge check [OPTIONS] [FILE]",
    ),
    (
        &["mqjudge", "check", "--help"],
        "Usage: mqjudge check [OPTIONS] [FILE]",
    ),
    (
        &["mqjudge", "packet", "--help"],
        "Usage: mqjudge packet [OPTIONS] <HEX>...",
    ),
    (
        &["mqjudge", "rules", "--help"],
        "Example: mqjudge rules --role client\n",
    ),
    (
        &["mqjudge", "explain", "--help"],
        "3 for misuse or an unknown word",
    ),
    (&["mqjudge", "show", "--help"], "docs/LOG_FORMAT.md"),
    (&["mqjudge", "--version"], VERSION),
    (&["mqjudge", "-V"], VERSION),
];

#[test]
fn shows_help_and_the_version(rt: HostRuntime) {
    assert_help(&rt, &HELP);
}

static STATUSES: [Answered; 4] = [
    (
        &["mqjudge", "--help"],
        "Statuses: 0 for a pass, 1 for faults, 2 for a refused log, 3 for misuse,\n4 if ",
    ),
    (
        &["mqjudge", "check", "--help"],
        "Statuses: 0 for no fault, 1 for faults, 2 for a refused log, 3 for misuse,\n4 if ",
    ),
    (
        &["mqjudge", "show", "--help"],
        "Statuses: 0 if the log was shown, 2 for a refused log, 3 for misuse,\n4 if ",
    ),
    (
        &["mqjudge", "packet", "--help"],
        "Statuses: 0 for one packet, 1 for other bytes, 3 for misuse,\n4 if ",
    ),
];

#[test]
fn says_in_help_what_each_status_means(rt: HostRuntime) {
    assert_help(&rt, &STATUSES);
}

// In the help of each task that takes it `--times` stands after `--all`.
static TIMES: [Answered; 3] = [
    (
        &["mqjudge", "check", "--help"],
        "      --all                Judge the further statements too\n      \
        --times              Judge those on times too: moments are microseconds\n",
    ),
    (
        &["mqjudge", "show", "--help"],
        "      --all         With --faults: judge the further statements too\n      \
        --times       With --faults: as --all, and by those on times\n",
    ),
    (
        &["mqjudge", "rules", "--help"],
        "      --all                List the further statements too\n      \
        --times              List those on times too\n",
    ),
];

#[test]
fn says_in_help_that_there_are_statements_on_times(rt: HostRuntime) {
    assert_help(&rt, &TIMES);
}

// Whether these words are refused, with a text that has this part.
fn is_misuse(alloc: Global, words: &[&str], part: &str) -> bool {
    match parse(alloc, words) {
        Err(EarlyExit::Usage(text)) => text.as_str().contains(part),
        _ => false,
    }
}

// Asserts that the words of each row are refused.
fn assert_misuses(rt: &(impl Abort + AllocGlobal), rows: &[Answered]) {
    for (words, part) in rows {
        assert!(rt; is_misuse(rt.alloc(), words, part), "{words:?}");
    }
}

static MISUSES: [Answered; 7] = [
    (&[], "requires a subcommand"),
    (&["mqjudge"], "requires a subcommand"),
    (&["mqjudge", "chekc"], "unrecognized subcommand 'chekc'"),
    (
        &["mqjudge", "help", "chekc"],
        "unrecognized subcommand 'chekc'",
    ),
    (
        &["mqjudge", "check", "a", "b"],
        "unexpected argument 'b' found",
    ),
    (
        &["mqjudge", "check", "--quiet"],
        "unexpected argument '--quiet' found",
    ),
    (
        &["mqjudge", "--quick", "check"],
        "unexpected argument '--quick' found",
    ),
];

#[test]
fn refuses_other_words(rt: HostRuntime) {
    assert_misuses(&rt, &MISUSES);
}

static TIMELESS: [Answered; 4] = [
    (
        &["mqjudge", "check", "--times", "--times"],
        "the argument '--times' cannot be used multiple times",
    ),
    (
        &["mqjudge", "check", "--times=3"],
        "unexpected value '3' for '--times' found",
    ),
    (
        &["mqjudge", "packet", "--times", "c000"],
        "unexpected argument '--times' found",
    ),
    (
        &["mqjudge", "explain", "--times", "K01"],
        "unexpected argument '--times' found",
    ),
];

#[test]
fn takes_the_option_on_times_once_and_where_statements_are_chosen(rt: HostRuntime) {
    assert_misuses(&rt, &TIMELESS);
}

// Words that are refused, and whether it is for several logs.
static SEVERAL: [(&[&str], bool); 8] = [
    (&["mqjudge", "check", "a", "b"], true),
    (&["mqjudge", "check", "--json", "a", "-"], true),
    (&["mqjudge", "check", "a", "--summary", "b", "c"], true),
    (&["mqjudge", "check", "a", "b", "--quiet"], true),
    (&["mqjudge", "check", "a", "--quiet"], false),
    (&["mqjudge", "check", "--quiet", "--quick"], false),
    (&["mqjudge", "show", "a", "b"], false),
    (&["mqjudge", "explain", "S01", "S02"], false),
];

#[test]
fn says_where_many_logs_are_judged(rt: HostRuntime) {
    let line = "\nmqjudge: check takes one log; recorders/judge takes many\n";
    for (words, many) in &SEVERAL {
        assert!(rt; is_misuse(rt.alloc(), words, "Usage: mqjudge"), "{words:?}");
        assert!(rt; is_misuse(rt.alloc(), words, line) == *many, "{words:?}");
    }
}

// Whether these words ask for the packet that these digits spell.
fn is_packet_of(alloc: Global, words: &[&str], digits: &str) -> Result<bool, EarlyExit> {
    match task_of(alloc, words)? {
        Task::Packet { hex, long: false } => Ok(hex.as_str() == digits),
        _ => Ok(false),
    }
}

static OTHER_PACKETS: [Answered; 4] = [
    (&["mqjudge", "packet"], "<HEX>"),
    (
        &["mqjudge", "packet", "--json", "c000"],
        "unexpected argument '--json' found",
    ),
    (
        &["mqjudge", "packet", "--coverage", "c000"],
        "unexpected argument '--coverage' found",
    ),
    (
        &["mqjudge", "show", "--coverage"],
        "unexpected argument '--coverage' found",
    ),
];

#[test]
fn reads_the_words_of_a_packet(rt: HostRuntime) -> Result<(), Fail> {
    assert!(rt; is_packet_of(rt.alloc(), &["mqjudge", "packet", "c000"], "c000")?);
    assert_misuses(&rt, &OTHER_PACKETS);
    Ok(())
}

// Whether these words ask for a review of this file with its faults, near to them by this number of
// positions, with long lines or not, and by these statements.
fn is_review_of(
    alloc: Global,
    words: &[&str],
    path: Option<&str>,
    number: Option<&str>,
    (is_long, asked): (bool, Scope),
) -> Result<bool, EarlyExit> {
    let Work::Again(
        Review {
            file,
            faults,
            around,
            long,
            scope,
        },
    ) = parse(alloc, words)?
    else {
        return Ok(false);
    };
    let file = file.as_ref().map(|path| path.as_str());
    let around = around.as_ref().map(|number| number.as_str());
    Ok(faults && long == is_long && scope == asked && file == path && around == number)
}

// The words of a review, its file, its number, whether lines are long, and by which statements it
// is.
static REVIEWS: [(&[&str], Option<&str>, Option<&str>, (bool, Scope)); 4] = [
    (
        &["mqjudge", "show", "--around", "3", "--faults", "a.log"],
        Some("a.log"),
        Some("3"),
        (false, Scope::Usual),
    ),
    (
        &["mqjudge", "show", "--faults", "--long"],
        None,
        None,
        (true, Scope::Usual),
    ),
    (
        &["mqjudge", "show", "--all", "--faults", "a.log"],
        Some("a.log"),
        None,
        (false, Scope::All),
    ),
    (
        &["mqjudge", "show", "--faults", "--all", "--times", "a.log"],
        Some("a.log"),
        None,
        (false, Scope::Timed),
    ),
];

#[test]
fn reads_the_words_of_a_review(rt: HostRuntime) -> Result<(), Fail> {
    for (words, path, number, extent) in &REVIEWS {
        assert!(rt;
            is_review_of(rt.alloc(), words, *path, *number, *extent)?,
            "{words:?}"
        );
    }
    Ok(())
}

// Whether these words ask for a check of this file with what its faults conflict with, in this
// form, for coverage too or not, and by these statements.
fn is_inquiry_of(
    alloc: Global,
    words: &[&str],
    path: Option<&str>,
    report: (Form, bool, Scope),
) -> Result<bool, EarlyExit> {
    let Work::Why(
        Inquiry {
            file,
            form,
            coverage,
            scope,
            statements: None,
        },
    ) = parse(alloc, words)?
    else {
        return Ok(false);
    };
    let file = file.as_ref().map(|path| path.as_str());
    Ok(file == path && (form, coverage, scope) == report)
}

static INQUIRIES: [(&[&str], Option<&str>, (Form, bool, Scope)); 5] = [
    (
        &["mqjudge", "check", "--why", "a.log"],
        Some("a.log"),
        (Form::Text, false, Scope::Usual),
    ),
    (
        &["mqjudge", "check", "a.log", "--json", "--why"],
        Some("a.log"),
        (Form::Json, false, Scope::Usual),
    ),
    (
        &["mqjudge", "check", "--all", "a.log", "--why"],
        Some("a.log"),
        (Form::Text, false, Scope::All),
    ),
    (
        &["mqjudge", "check", "--why", "--coverage", "--summary"],
        None,
        (Form::Summary, true, Scope::Usual),
    ),
    (
        &["mqjudge", "check", "--why", "--times", "a.log"],
        Some("a.log"),
        (Form::Text, false, Scope::Timed),
    ),
];

#[test]
fn reads_the_words_of_an_inquiry(rt: HostRuntime) -> Result<(), Fail> {
    for (words, path, report) in &INQUIRIES {
        assert!(rt;
            is_inquiry_of(rt.alloc(), words, *path, *report)?,
            "{words:?}"
        );
    }
    Ok(())
}

// Whether these words ask for a review without faults, which is refused later.
fn is_faultless_review(alloc: Global, words: &[&str], asked: Scope) -> Result<bool, EarlyExit> {
    match parse(alloc, words)? {
        Work::Again(Review { faults, scope, .. }) => Ok(!faults && scope == asked),
        _ => Ok(false),
    }
}

static FAULTLESS: [(&[&str], Scope); 3] = [
    (&["mqjudge", "show", "--all"], Scope::All),
    (&["mqjudge", "show", "--times", "a.log"], Scope::Timed),
    (&["mqjudge", "show", "--around", "1"], Scope::Usual),
];

#[test]
fn reads_what_needs_faults(rt: HostRuntime) -> Result<(), Fail> {
    for (words, asked) in &FAULTLESS {
        assert!(rt;
            is_faultless_review(rt.alloc(), words, *asked)?,
            "{words:?}"
        );
    }
    Ok(())
}

// Whether these words ask for the events of this file, or of the input.
fn is_show_of(alloc: Global, words: &[&str], wanted: Option<&str>) -> Result<bool, EarlyExit> {
    match task_of(alloc, words)? {
        Task::Show { file, .. } => Ok(file.as_ref().map(|path| path.as_str()) == wanted),
        _ => Ok(false),
    }
}

static SHOWS: [(&[&str], Option<&str>); 2] = [
    (&["mqjudge", "show"], None),
    (&["mqjudge", "show", "a.log"], Some("a.log")),
];

#[test]
fn reads_the_words_of_a_show(rt: HostRuntime) -> Result<(), Fail> {
    for (words, wanted) in &SHOWS {
        assert!(rt; is_show_of(rt.alloc(), words, *wanted)?, "{words:?}");
    }
    Ok(())
}

#[test]
fn refuses_to_show_two_files(rt: HostRuntime) {
    let words = ["mqjudge", "show", "a", "b"];
    assert!(rt; is_misuse(rt.alloc(), &words, "unexpected argument 'b' found"));
}

// The list of statements that these words ask for, whether they check a log, explain its faults or
// list statements. The words of other tasks, and words without a list, have none.
fn list_of(alloc: Global, words: &[&str]) -> Result<Option<String>, EarlyExit> {
    match parse(alloc, words)? {
        Work::Once(Task::Check { statements, .. }) => Ok(statements),
        Work::Once(Task::Rules { statements, .. }) => Ok(statements),
        Work::Why(Inquiry { statements, .. }) => Ok(statements),
        _ => Ok(None),
    }
}

// Whether that is this list, or none.
fn is_list_of(alloc: Global, words: &[&str], wanted: Option<&str>) -> Result<bool, EarlyExit> {
    let list = list_of(alloc, words)?;
    Ok(list.as_ref().map(|list| list.as_str()) == wanted)
}

// Words, and the list of statements in them.
static CHOICES: [(&[&str], Option<&str>); 9] = [
    (&["mqjudge", "check"], None),
    (&["mqjudge", "check", "--statements", "W13"], Some("W13")),
    (
        &["mqjudge", "check", "a.log", "--statements=-W13"],
        Some("-W13"),
    ),
    (&["mqjudge", "check", "--statements", ""], Some("")),
    (
        &["mqjudge", "check", "--all", "--statements", "S,E"],
        Some("S,E"),
    ),
    (
        &["mqjudge", "check", "--why", "--statements", "b", "a.log"],
        Some("b"),
    ),
    (
        &["mqjudge", "rules", "--statements", "all,-F"],
        Some("all,-F"),
    ),
    (
        &["mqjudge", "check", "--times", "--statements", "K"],
        Some("K"),
    ),
    (&["mqjudge", "rules", "--role", "client"], None),
];

#[test]
fn reads_a_list_of_statements(rt: HostRuntime) -> Result<(), Fail> {
    for (words, wanted) in &CHOICES {
        assert!(rt; is_list_of(rt.alloc(), words, *wanted)?, "{words:?}");
    }
    Ok(())
}

static LISTLESS: [&[&str]; 4] = [
    &["mqjudge", "check", "--statements"],
    &["mqjudge", "check", "--statements", "-W13"],
    &["mqjudge", "check", "--statements", "W", "--statements", "C"],
    &["mqjudge", "show", "--statements", "W", "a.log"],
];

#[test]
fn needs_a_list_after_the_option(rt: HostRuntime) {
    for words in &LISTLESS {
        assert!(rt; is_misuse(rt.alloc(), words, ""), "{words:?}");
    }
}
