//! Files that can't be read, and what is said of them.
use mq_host::{Noting, Outlet, Reason, Trouble, read_start};
use mq_tasks::run;
use mq_tasks_harness::{Desk, FAULTY, GOOD, Narrow, Trickle, does};
use std::alloc::Global;
use std::io::{self, ErrorKind, Read};
use std::process::Abort;
use std::test::Fail;

// What there is in place of a word that names no statement.
const CODES: &str =
    "mqjudge: there are W01 W02 W03 W04 W05 W06 W07 W08 W09 W10 W11 W12 W13 W14 W15 W16 W17 W18 W19 W20 W21 \
    C01 C02 C03 C04 C05 C06 C07 C08 C09 C10 C11 C12 C13 C14 C15 C16 C17 C18 C19 C20 C21 C22 C23 S01 S02 S03 S04 S05 S06 S07 \
    E1A E1R E1O E2A E2R E2O E3A E3R E3O E4A E4R E5A E5R E6A E6R E7R L1 L2 L3 B01 B02 B03 B04 B05 B06 B07 B08 B09 P01 P02 R01 R02 F01 F02 F03 F04 F05 F06 V03 V04 V06 C24 D01 D02 D03 D05 A01 A02 A03 K01 K02, \
    and citations such as MQTT-4.4.0-1: see mqjudge rules\n";

// Other kinds of files.
const CAPTURE: &[u8] = b"\xd4\xc3\xb2\xa1\x02\x00\x04\x00";

const TURNED_CAPTURE: &[u8] = b"\xa1\xb2\xc3\xd4";

const FINE_CAPTURE: &[u8] = b"\x4d\x3c\xb2\xa1\x02\x00\x04\x00";

const TURNED_FINE_CAPTURE: &[u8] = b"\xa1\xb2\x3c\x4d\x00";

const NEW_CAPTURE: &[u8] = b"\x0a\x0d\x0d\x0a\x1c\x00";

const COMPRESSED: &[u8] = b"\x1f\x8b\x08\x00\x00";

const REFUSED_AT_0: &str = "refused 1 Header at 0\n";

const IS_CAPTURE: &str = "mqjudge: it is a capture: recorders/from-capture makes logs of it\n";

const IS_COMPRESSED: &str = "mqjudge: it is compressed by gzip: unpack it first; \
    of a capture recorders/from-capture makes logs\n";

// Words, the bytes of their log, what is written to the output, and to the error stream.
type Refused = (
    &'static [&'static str],
    &'static [u8],
    &'static str,
    &'static str,
);

static OTHER_FILES: [Refused; 14] = [
    (
        &["mqjudge", "check", "a.log"],
        CAPTURE,
        REFUSED_AT_0,
        IS_CAPTURE,
    ),
    (
        &["mqjudge", "check"],
        TURNED_CAPTURE,
        REFUSED_AT_0,
        IS_CAPTURE,
    ),
    // Its first byte is that of a log.
    (
        &["mqjudge", "show", "a.log"],
        FINE_CAPTURE,
        "refused 1 Header at 1\n",
        IS_CAPTURE,
    ),
    (
        &["mqjudge", "check", "--json", "a.log"],
        TURNED_FINE_CAPTURE,
        "{\"at\":0,\"name\":\"Header\",\"refused\":1}\n",
        IS_CAPTURE,
    ),
    (
        &["mqjudge", "show", "--faults", "a.log"],
        NEW_CAPTURE,
        REFUSED_AT_0,
        IS_CAPTURE,
    ),
    (
        &["mqjudge", "check", "--why", "a.log"],
        NEW_CAPTURE,
        REFUSED_AT_0,
        IS_CAPTURE,
    ),
    (
        &["mqjudge", "check", "a.log"],
        COMPRESSED,
        REFUSED_AT_0,
        IS_COMPRESSED,
    ),
    (
        &["mqjudge", "check", "-"],
        b"\x1f\x8b",
        REFUSED_AT_0,
        IS_COMPRESSED,
    ),
    // These begin as no kind of file that is known.
    (
        &["mqjudge", "check", "a.log"],
        b"\xd4\xc3\xb2",
        REFUSED_AT_0,
        "",
    ),
    (&["mqjudge", "check", "a.log"], b"\x1f", REFUSED_AT_0, ""),
    (
        &["mqjudge", "show", "a.log"],
        b"\x00\xd4\xc3\xb2\xa1",
        REFUSED_AT_0,
        "",
    ),
    (
        &["mqjudge", "show", "--faults", "a.log"],
        b"{}",
        REFUSED_AT_0,
        "",
    ),
    (
        &["mqjudge", "check", "a.log"],
        b"",
        "refused 10 Cut at 0\n",
        "",
    ),
    (
        &["mqjudge", "check", "a.log"],
        b"MQT",
        "refused 10 Cut at 3\n",
        "",
    ),
];

// Whether these bytes are refused, and this is written and said.
fn is_refused(
    alloc: Global,
    words: &'static [&'static str],
    bytes: &'static [u8],
    written: &str,
    said: &str,
) -> bool {
    let mut desk = Desk::of(alloc, words, bytes, bytes);
    does(&mut desk, 2, written, said)
}

// Asserts that the bytes of each row are.
fn assert_refused(rt: &(impl Abort + AllocGlobal), rows: &[Refused]) {
    for (words, bytes, written, said) in rows {
        assert!(rt;
            is_refused(rt.alloc(), *words, *bytes, written, said),
            "{words:?} {written}"
        );
    }
}

#[test]
fn says_what_to_do_with_other_files(rt: HostRuntime) {
    assert_refused(&rt, &OTHER_FILES);
}

// Whether the program says this, with this status, where the host has these words, a good log, and
// this trouble.
fn says(
    alloc: Global,
    words: &'static [&'static str],
    trouble: Trouble,
    status: u8,
    said: &str,
) -> bool {
    let mut desk = Desk::of(alloc, words, GOOD, GOOD);
    desk.trouble = trouble;
    does(&mut desk, status, "", said)
}

// Why a file can't be opened, and what is said then.
type Unopened = (Reason, &'static str);

static REASONS: [Unopened; 7] = [
    (Reason::Missing, "there is no such file"),
    (Reason::Denied, "permission to read it is denied"),
    (Reason::Directory, "it is a directory"),
    (Reason::NoDirectory, "part of its path isn't a directory"),
    (Reason::LongName, "its name is too long"),
    (Reason::Loop, "its symbolic links lead back to themselves"),
    (Reason::Other, "the system can't read it"),
];

// Whether this is said of `b.log`.
fn is_said_of_file(
    alloc: Global,
    words: &'static [&'static str],
    reason: Reason,
    text: &str,
) -> Result<bool, Fail> {
    let lines = format!(in alloc; "mqjudge: read failed\nmqjudge: b.log: {text}\n")?;
    Ok(says(alloc, words, Trouble::Unread(reason), 4, lines.as_str()))
}

// Asserts that it is for each row.
fn assert_unopened(
    rt: &(impl Abort + AllocGlobal),
    words: &'static [&'static str],
    rows: &[Unopened],
) -> Result<(), Fail> {
    for (reason, text) in rows {
        assert!(rt;
            is_said_of_file(rt.alloc(), words, *reason, text)?,
            "{words:?} {text}"
        );
    }
    Ok(())
}

#[test]
fn says_why_a_file_cannot_be_opened(rt: HostRuntime) -> Result<(), Fail> {
    assert_unopened(&rt, &["mqjudge", "check", "b.log"], &REASONS)?;
    assert_unopened(&rt, &["mqjudge", "show", "--faults", "b.log"], &REASONS)
}

#[test]
fn says_that_a_word_is_no_text(rt: HostRuntime) {
    let lines = "mqjudge: read failed\nmqjudge: the command line: a word isn't UTF-8; \
        give a file of that name on standard input: mqjudge check < FILE\n";
    assert!(rt; says(rt.alloc(), &[], Trouble::Unread(Reason::NotUtf8), 4, lines));
}

// Whether the codes are listed for this word among these words.
fn are_codes_listed(
    alloc: Global,
    words: &'static [&'static str],
    word: &str,
) -> Result<bool, Fail> {
    let lines = format!(in alloc; "mqjudge: no statement {word}\n{CODES}")?;
    Ok(says(alloc, words, Trouble::Memory, 3, lines.as_str()))
}

// Words that ask for a statement, and the one of them that names none.
static NAMELESS: [(&[&str], &str); 3] = [
    (&["mqjudge", "explain", "X99"], "X99"),
    (&["mqjudge", "explain", "w9"], "w9"),
    (&["mqjudge", "explain", "MQTT-4.4.0"], "MQTT-4.4.0"),
];

#[test]
fn lists_the_codes_for_a_word_that_is_none(rt: HostRuntime) -> Result<(), Fail> {
    for (words, word) in &NAMELESS {
        assert!(rt; are_codes_listed(rt.alloc(), *words, word)?, "{word}");
    }
    Ok(())
}

// Words whose reading fails at its beginning, in the first bytes, or later; after how many bytes;
// what is read; and what is written before.
type Reading = (&'static [&'static str], usize, &'static str, &'static str);

static UNREAD: [Reading; 11] = [
    (&["mqjudge", "check", "a.log"], 0, "a.log", ""),
    (&["mqjudge", "check", "a.log"], 3, "a.log", ""),
    (&["mqjudge", "check", "a.log"], 30, "a.log", ""),
    (&["mqjudge", "check"], 30, "standard input", ""),
    (&["mqjudge", "packet", "-"], 3, "standard input", ""),
    (&["mqjudge", "packet", "-"], 20, "standard input", ""),
    (
        &["mqjudge", "show", "-"],
        20,
        "standard input",
        "1 record 1 OPEN\n",
    ),
    (&["mqjudge", "show", "--faults", "a.log"], 2, "a.log", ""),
    (&["mqjudge", "show", "--faults", "a.log"], 20, "a.log", ""),
    (&["mqjudge", "check", "--why", "a.log"], 2, "a.log", ""),
    (&["mqjudge", "check", "--why", "a.log"], 20, "a.log", ""),
];

// A host with these words and a good log, whose readers fail after so many bytes, with an error of
// this kind.
fn failing_desk(
    alloc: Global,
    words: &'static [&'static str],
    fails_after: usize,
    kind: ErrorKind,
) -> Desk {
    let mut desk = Desk::of(alloc, words, GOOD, GOOD);
    desk.fails_after = Some(fails_after);
    desk.kind = kind;
    desk
}

// Whether this is written before a reading of this place fails with such an error, and then said of
// it.
fn is_unread(
    alloc: Global,
    words: &'static [&'static str],
    fails_after: usize,
    place: &str,
    written: &str,
    kind: ErrorKind,
    text: &str,
) -> Result<bool, Fail> {
    let lines = format!(in alloc; "mqjudge: read failed\nmqjudge: {place}: {text}\n")?;
    let mut desk = failing_desk(alloc, words, fails_after, kind);
    Ok(does(&mut desk, 4, written, lines.as_str()))
}

// Asserts that it is for each row.
fn assert_unread(
    rt: &(impl Abort + AllocGlobal),
    rows: &[Reading],
    kind: ErrorKind,
    text: &str,
) -> Result<(), Fail> {
    for (words, fails_after, place, written) in rows {
        assert!(rt;
            is_unread(rt.alloc(), *words, *fails_after, place, written, kind, text)?,
            "{words:?} {text}"
        );
    }
    Ok(())
}

#[test]
fn says_why_a_reading_failed(rt: HostRuntime) -> Result<(), Fail> {
    let denied = "permission to read it is denied";
    assert_unread(&rt, &UNREAD, ErrorKind::IsADirectory, "it is a directory")?;
    assert_unread(&rt, &UNREAD, ErrorKind::PermissionDenied, denied)?;
    assert_unread(&rt, &UNREAD, ErrorKind::Other, "the system can't read it")
}

// A reader of which every other read is interrupted, the first one too.
#[derive(Drop)]
struct Interrupted<'a> {
    reader: Trickle<'a>,
    is_interrupted: bool,
}

impl Read for Interrupted<'_> {
    fn read(&mut self, buf: &mut [u8]) -> io::Result<usize> {
        self.is_interrupted = !self.is_interrupted;
        if self.is_interrupted {
            return Err(ErrorKind::Interrupted.into());
        }
        self.reader.read(buf)
    }
}

// Whether the first bytes of such a reader are read.
fn is_start_read(alloc: Global) -> Result<bool, Trouble> {
    let mut reader = Interrupted {
        reader: Trickle::of(GOOD, None),
        is_interrupted: false,
    };
    let start = read_start(alloc, &mut reader)?;
    Ok(start.as_slice() == b"MQTR\x01\x00\x01\x00".as_slice())
}

#[test]
fn tries_interrupted_reads_of_the_first_bytes_again(rt: HostRuntime) -> Result<(), Fail> {
    assert!(rt; is_start_read(rt.alloc())?);
    Ok(())
}

// Whether it is noted why its first read fails, and nothing after the second one, which doesn't.
fn noted_reads() -> (bool, bool) {
    let mut reader = Noting::new(Interrupted {
        reader: Trickle::of(GOOD, None),
        is_interrupted: false,
    });
    let mut byte = [0];
    let first = reader.read(&mut byte).is_err() && reader.reason() == Some(Reason::Other);
    let second = reader.read(&mut byte).is_ok() && reader.reason().is_none();
    (first, second)
}

// A read that was tried again isn't why a later one of another file failed.
#[test]
fn notes_why_the_latest_read_failed(rt: HostRuntime) {
    assert_eq!(rt; noted_reads(), (true, true));
}

// Whether a reader is given up that is always interrupted.
fn is_given_up(alloc: Global) -> bool {
    let mut reader = Trickle::failing(GOOD, Some(2), ErrorKind::Interrupted);
    matches!(
        read_start(alloc, &mut reader),
        Err(Trouble::Unread(Reason::Other))
    )
}

#[test]
fn gives_up_a_reader_that_is_always_interrupted(rt: HostRuntime) {
    assert!(rt; is_given_up(rt.alloc()));
}

type Words = &'static [&'static str];

// Words of each kind that writes.
static WRITERS: [Words; 10] = [
    &["mqjudge", "check", "a.log"],
    &["mqjudge", "check", "--json", "a.log"],
    &["mqjudge", "check", "--why", "a.log"],
    &["mqjudge", "show", "a.log"],
    &["mqjudge", "show", "--faults", "a.log"],
    &["mqjudge", "packet", "C000"],
    &["mqjudge", "rules"],
    &["mqjudge", "explain", "S01"],
    &["mqjudge", "--help"],
    &["mqjudge", "--version"],
];

// Whether they fail where the output has this little room, and this is said.
fn is_unwritten(alloc: Global, words: Words, room: usize, stays: bool, said: &str) -> bool {
    let mut desk = Desk::of(alloc, words, FAULTY, GOOD);
    let mut output = Outlet::new(Narrow { room, stays });
    let mut error = Vec::new(alloc);
    let status = run(alloc, &mut desk, &mut output, &mut error, &mut ());
    status == 4 && error.as_slice() == said.as_bytes()
}

// Asserts that the words of each row do.
fn assert_unwritten(
    rt: &(impl Abort + AllocGlobal),
    rows: &[Words],
    room: usize,
    stays: bool,
    said: &str,
) {
    for words in rows {
        assert!(rt;
            is_unwritten(rt.alloc(), *words, room, stays, said),
            "{words:?} {said}"
        );
    }
}

// A reader that has gone needs no word; a full disk does.
#[test]
fn says_nothing_where_nobody_reads(rt: HostRuntime) {
    assert_unwritten(&rt, &WRITERS, 100_000, true, "");
    assert_unwritten(&rt, &WRITERS, 3, false, "mqjudge: write failed\n");
}
