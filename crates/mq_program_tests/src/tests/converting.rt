//! `convert`: what it writes, and its status where a read, a write or a save fails.
use mq_host::Outlet;
use mq_tasks::perform_convert;
use mq_tasks_harness::{Desk, GOOD, Held, NESTED, does};
use std::alloc::Global;
use std::process::Abort;

/// A session of four events, `GOOD` in version 2.
const SECOND: &[u8] = b"MQTR\x02\x00\x01\x00\
    \x01\x00\x00\x00\x00\x00\x00\x00\x00\x00\x00\x00\x00\
    \x02\x00\x00\x00\x0f\x00\x00\x00\x00\x00\x00\x00\x00\x10\x0d\x00\x04MQTT\x05\x02\x00\x3c\x00\x00\x00\
    \x03\x00\x00\x00\x05\x00\x00\x00\x00\x00\x00\x00\x00\x20\x03\x00\x00\x00\
    \x02\x00\x00\x00\x09\x00\x00\x00\x00\x00\x00\x00\x00\x32\x07\x00\x01a\x00\x01\x00x";

const ASKED: &[&str] = &["mqjudge", "convert", "a.log", "b.log"];

const FORCED: &[&str] = &["mqjudge", "convert", "--force", "a.log", "d.log"];

const KEPT: &[&str] = &["mqjudge", "convert", "a.log", "d.log"];

const CHECKED: &[&str] = &["mqjudge", "check", "a.log"];

const REFUSED: &str = "refused 2 Version at 4\n";

const TWO_OPENED: &str = "refused 7 Nested at 13\n";

const OTHER_FILE: &str = "mqjudge: OUT has to be another file than IN\n";

const MISSING: &str = "mqjudge: read failed\nmqjudge: c.log: there is no such file\n";

const UNREAD: &str = "mqjudge: read failed\nmqjudge: a.log: the system can't read it\n";

const THERE: &str = "mqjudge: OUT exists: d.log\nmqjudge: with --force it is emptied and written\n";

const LOG_THERE: &str =
    "mqjudge: OUT exists: a.log\nmqjudge: with --force it is emptied and written\n";

const UNWRITTEN: &str = "mqjudge: write failed\n";

// Words, the bytes of their log, the status, what is written to the output, and to the error
// stream.
type Converted = (
    &'static [&'static str],
    &'static [u8],
    u8,
    &'static str,
    &'static str,
);

static ROWS: [Converted; 15] = [
    (ASKED, GOOD, 0, "", ""),
    (&["mqjudge", "convert", "-", "b.log"], GOOD, 0, "", ""),
    (ASKED, SECOND, 2, REFUSED, ""),
    // No file can be made at this path.
    (
        &["mqjudge", "convert", "a.log", "c.log"],
        GOOD,
        4,
        "",
        UNWRITTEN,
    ),
    (
        &["mqjudge", "convert", "c.log", "b.log"],
        GOOD,
        4,
        "",
        MISSING,
    ),
    (
        &["mqjudge", "convert", "a.log", "a.log"],
        GOOD,
        3,
        "",
        OTHER_FILE,
    ),
    (&["mqjudge", "convert", "-", "-"], GOOD, 3, "", OTHER_FILE),
    // A file that is there is emptied only if that is asked for, and the log isn't.
    (
        &["mqjudge", "convert", "a.log", "d.log"],
        GOOD,
        3,
        "",
        THERE,
    ),
    (
        &["mqjudge", "convert", "-", "a.log"],
        GOOD,
        3,
        "",
        LOG_THERE,
    ),
    (
        &["mqjudge", "convert", "--force", "a.log", "d.log"],
        GOOD,
        0,
        "",
        "",
    ),
    (
        &["mqjudge", "convert", "a.log", "b.log", "--force"],
        GOOD,
        0,
        "",
        "",
    ),
    (
        &["mqjudge", "convert", "--force", "a.log", "./a.log"],
        GOOD,
        3,
        "",
        OTHER_FILE,
    ),
    (
        &["mqjudge", "convert", "--force", "a.log", "c.log"],
        GOOD,
        4,
        "",
        UNWRITTEN,
    ),
    // A log that is refused for its header says so before that is looked at.
    (
        &["mqjudge", "convert", "a.log", "d.log"],
        SECOND,
        2,
        REFUSED,
        "",
    ),
    (
        &["mqjudge", "convert", "a.log", "b.log"],
        b"MQTR\x01\x00\x01",
        2,
        "refused 10 Cut at 7\n",
        "",
    ),
];

// Whether the program does this with these words and this log.
fn is_done(
    alloc: Global,
    words: &'static [&'static str],
    bytes: &'static [u8],
    status: u8,
    written: &str,
    said: &str,
) -> bool {
    let mut desk = Desk::of(alloc, words, bytes, bytes);
    does(&mut desk, status, written, said)
}

// Asserts that it does for each row.
fn assert_rows(rt: &(impl Abort + AllocGlobal), rows: &[Converted]) {
    for (words, bytes, status, written, said) in rows {
        assert!(rt;
            is_done(rt.alloc(), *words, *bytes, *status, written, said),
            "{words:?} {written}"
        );
    }
}

#[test]
fn converts_a_file_or_says_why_not(rt: HostRuntime) {
    assert_rows(&rt, &ROWS);
}

// Whether it does, how many files it makes, and how many of them are closed.
fn made_by(
    alloc: Global,
    words: &'static [&'static str],
    bytes: &'static [u8],
    status: u8,
    written: &str,
    said: &str,
) -> (bool, u8, u8) {
    let mut desk = Desk::of(alloc, words, bytes, bytes);
    let is_done = does(&mut desk, status, written, said);
    (is_done, desk.made, desk.kept)
}

// A row as in `ROWS`, and how many files are made. As many are closed.
type Making = (
    &'static [&'static str],
    &'static [u8],
    u8,
    &'static str,
    &'static str,
    u8,
);

static MADE: [Making; 7] = [
    (ASKED, GOOD, 0, "", "", 1),
    (FORCED, GOOD, 0, "", "", 1),
    (ASKED, NESTED, 2, TWO_OPENED, "", 1),
    (ASKED, SECOND, 2, REFUSED, "", 0),
    (FORCED, SECOND, 2, REFUSED, "", 0),
    (KEPT, GOOD, 3, "", THERE, 0),
    (CHECKED, GOOD, 0, "pass 4 events\n", "", 0),
];

// Asserts that they are made and closed for each row.
fn assert_made(rt: &(impl Abort + AllocGlobal), rows: &[Making]) {
    for (words, bytes, status, written, said, made) in rows {
        assert_eq!(rt;
            made_by(rt.alloc(), *words, *bytes, *status, written, said),
            (true, *made, *made),
            "{words:?} {written}"
        );
    }
}

#[test]
fn makes_a_file_once_and_only_for_a_log_with_a_header(rt: HostRuntime) {
    assert_made(&rt, &MADE);
}

// Whether this is said where reading fails after so many bytes, if it does, and the file that is
// made takes so many, and may stay unsaved.
fn is_failure_said(
    alloc: Global,
    fails_after: Option<usize>,
    room: usize,
    stays: bool,
    said: &str,
) -> bool {
    let mut desk = Desk::of(alloc, ASKED, GOOD, GOOD);
    desk.fails_after = fails_after;
    desk.room = room;
    desk.stays = stays;
    does(&mut desk, 4, "", said)
}

#[test]
fn says_what_failed_while_it_converted(rt: HostRuntime) {
    for (fails_after, room, stays, said) in &[
        (Some(2), 1_000, false, UNREAD),
        (Some(30), 1_000, false, UNREAD),
        (None, 7, false, UNWRITTEN),
        (None, 1_000, true, UNWRITTEN),
    ] {
        assert!(rt;
            is_failure_said(rt.alloc(), *fails_after, *room, *stays, said),
            "{room} {said}"
        );
    }
}

// The status of a conversion, whether it makes the log in version 2, and whether nothing is written
// beside it.
fn second_of_good(alloc: Global) -> (u8, bool, bool) {
    let (start, rest) = GOOD.split_at(4);
    let mut made = Held {
        bytes: Vec::new(alloc),
    };
    let mut output = Outlet::new(Vec::new(alloc));
    let mut error = Vec::new(alloc);
    let status = perform_convert(
        alloc,
        "a.log",
        start,
        rest,
        &mut made,
        &mut output,
        &mut error,
    );
    let is_made = made.bytes.as_slice() == SECOND;
    let is_silent = output.get_ref().is_empty() && error.is_empty();
    (status, is_made, is_silent)
}

#[test]
fn writes_a_log_of_version_2(rt: HostRuntime) {
    assert_eq!(rt; second_of_good(rt.alloc()), (0, true, true));
}
