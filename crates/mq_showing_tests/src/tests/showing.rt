//! `show`.
use mq_command::EarlyExit;
use mq_host::{FAILED, PASSED, REFUSED};
use mq_tasks_harness::{
    NESTED, Narrow, Trickle, WHOLE_LOG, is_failed_write, is_written, printed_by, status_by,
};
use std::alloc::Global;
use std::io::Cursor;
use std::test::Fail;

const SHOW: [&str; 2] = ["mqjudge", "show"];

// The lines of `WHOLE_LOG`.
const WHOLE_LINES: &str = "1 record 1 OPEN\n\
    2 record 2 SENT CONNECT size 15\n\
    3 record 3 RECV CONNACK size 5\n\
    4 record 4 SENT PUBLISH size 9 qos 1 dup 0 id 1\n\
    5 record 5 RECV PUBACK size 4 id 1\n\
    6 record 6 REST\n\
    7 record 7 CLOSE\n";

// A server's log with each of the fifteen packets, some of them cut, a release, a packet that
// breaks a rule, and directions that are lost.
const LOG_OF_ALL: &[u8] = b"MQTR\x01\x01\x01\x00\
    \x01\x00\x00\x00\x00\
    \x03\x00\x00\x00\x11\x10\x0d\x00\x04MQTT\x05\x02\x00\x3c\x00\x00\x00\xf0\x00\
    \x02\x00\x00\x00\x07\xf0\x00\x20\x03\x00\x00\x00\
    \x03\x00\x00\x00\x0b\x82\x07\x00\x07\x00\x00\x01a\x00\xc0\x00\
    \x02\x00\x00\x00\x08\x90\x04\x00\x07\x00\x00\xd0\x00\
    \x02\x00\x00\x00\x03\x3d\x07\x00\
    \x03\x00\x00\x00\x07\x30\x05\x00\x01a\x00x\
    \x02\x00\x00\x00\x06\x01a\xff\xff\x00x\
    \x03\x00\x00\x00\x05\x50\x03\xff\xff\x10\
    \x02\x00\x00\x00\x04\x62\x02\xff\xff\
    \x03\x00\x00\x00\x04\x70\x02\xff\xff\
    \x06\x00\x00\x00\x02\xff\xff\
    \x02\x00\x00\x00\x04\x40\x02\x00\x02\
    \x03\x00\x00\x00\x08\xa2\x06\x00\x03\x00\x00\x01a\
    \x02\x00\x00\x00\x06\xb0\x04\x00\x03\x00\x00\
    \x02\x00\x00\x00\x09\x32\x07\x00\x01a\x00\x00\x00x\
    \x02\x00\x00\x00\x05\x30\xff\xff\xff\xff\
    \x03\x00\x00\x00\x05\xe0\x00\x30\x80\x00";

const LINES_OF_ALL: &str = "1 record 1 OPEN\n\
    2 record 2 RECV CONNECT size 15\n\
    3 record 2 RECV AUTH size 2\n\
    4 record 3 SENT AUTH size 2\n\
    5 record 3 SENT CONNACK size 5\n\
    6 record 4 RECV SUBSCRIBE size 9 id 7\n\
    7 record 4 RECV PINGREQ size 2\n\
    8 record 5 SENT SUBACK size 6 id 7\n\
    9 record 5 SENT PINGRESP size 2\n\
    10 record 7 RECV PUBLISH size 7 qos 0 dup 0\n\
    11 record 8 SENT PUBLISH size 9 qos 2 dup 1 id 65535\n\
    12 record 9 RECV PUBREC size 5 id 65535\n\
    13 record 10 SENT PUBREL size 4 id 65535\n\
    14 record 11 RECV PUBCOMP size 4 id 65535\n\
    15 record 12 RELEASE 65535\n\
    16 record 13 SENT PUBACK size 4 id 2\n\
    17 record 14 RECV UNSUBSCRIBE size 8 id 3\n\
    18 record 15 SENT UNSUBACK size 6 id 3\n\
    19 record 16 SENT BAD W09 offset 5\n\
    20 record 17 SENT LOST\n\
    21 record 18 RECV DISCONNECT size 2\n\
    22 record 18 RECV LOST\n";

// A client's log with a Topic Name that isn't UTF-8.
const WRONG_TEXT: &[u8] = b"MQTR\x01\x00\x01\x00\
    \x01\x00\x00\x00\x00\
    \x02\x00\x00\x00\x09\x30\x07\x00\x02\xc3(\x00hi";

// A log, and what is shown of it.
static ROWS: [(&[u8], &str, u8); 9] = [
    (WHOLE_LOG, WHOLE_LINES, PASSED),
    (
        WRONG_TEXT,
        "1 record 1 OPEN\n2 record 2 SENT BAD W04 offset 2\n",
        PASSED,
    ),
    (LOG_OF_ALL, LINES_OF_ALL, PASSED),
    (b"MQTR\x01\x00\x01\x00", "", PASSED),
    (b"MQTR\x01\x00\x01", "refused 10 Cut at 7\n", REFUSED),
    (NESTED, "1 record 1 OPEN\nrefused 7 Nested at 13\n", REFUSED),
    (
        b"MQTR\x01\x00\x01\x00\x01\x00\x00\x00\x00\x02\x00\x00\x00\x05\x30\xff\xff\xff\x7f",
        "1 record 1 OPEN\nrefused 11 TooLarge at 22\n",
        REFUSED,
    ),
    // Version 2, whose records have moments.
    (
        b"MQTR\x02\x00\x01\x00\x01\x00\x00\x00\x00\x00\x00\x00\x00\x00\x00\x00\x00\x04\x00\x00\x00\x00\xff\xff\xff\xff\xff\xff\xff\xff",
        "1 record 1 moment 0 OPEN\n2 record 2 moment 18446744073709551615 CLOSE\n",
        PASSED,
    ),
    (
        b"MQTR\x02\x00\x01\x00\x01\x00\x00\x00\x00\x00\x00\x00\x00\x00\x00\x00\x07\x01",
        "1 record 1 moment 7 OPEN\nrefused 7 Nested at 21\n",
        REFUSED,
    ),
];

// The lines of the first log, long.
const LONG_LINES: &str = "1 record 1 OPEN\n\
    2 record 2 SENT CONNECT size 15 client \"\" clean-start 1 keep-alive 60\n\
    3 record 3 RECV CONNACK size 5 code 0x00 session-present 0\n\
    4 record 4 SENT PUBLISH size 9 qos 1 dup 0 id 1 retain 0 topic \"a\" payload 1\n\
    5 record 5 RECV PUBACK size 4 id 1 code 0x00\n\
    6 record 6 REST\n\
    7 record 7 CLOSE\n";

// Whether a log that is shown, read at once and then byte by byte, has this status and these lines.
fn is_shown(alloc: Global, log: &[u8], status: u8, lines: &str) -> Result<bool, EarlyExit> {
    let whole = printed_by(alloc, &SHOW, &mut &log[..])?;
    let cut = printed_by(alloc, &SHOW, &mut Trickle::of(log, None))?;
    Ok(whole.says(status, lines) && cut.says(status, lines))
}

#[test]
fn shows_logs_whole_and_byte_by_byte(rt: HostRuntime) -> Result<(), Fail> {
    for (log, lines, status) in ROWS {
        assert!(rt; is_shown(rt.alloc(), log, status, lines)?, "{lines}");
    }
    Ok(())
}

// The lines of the one with a wrong text, long: the first byte that is wrong is marked.
const LONG_WRONG_TEXT: &str = "1 record 1 OPEN\n\
    2 record 2 SENT BAD W04 offset 2 type PUBLISH at 4 bytes 30 07 00 02 [C3] 28 00 68 69\n";

#[test]
fn shows_long_lines(rt: HostRuntime) -> Result<(), Fail> {
    for (log, lines) in [(WHOLE_LOG, LONG_LINES), (WRONG_TEXT, LONG_WRONG_TEXT)] {
        let printed = printed_by(rt.alloc(), &["mqjudge", "show", "--long"], &mut &log[..])?;
        assert!(rt; printed.says(PASSED, lines), "{lines}");
    }
    Ok(())
}

// Whether a log whose reader fails after so many bytes is shown up to there, in so many lines.
fn is_cut_short(alloc: Global, fails_after: usize, lines: usize) -> Result<bool, EarlyExit> {
    let mut input = Trickle::of(WHOLE_LOG, Some(fails_after));
    let printed = printed_by(alloc, &SHOW, &mut input)?;
    let shown = printed.output.as_slice();
    Ok(
        printed.status == FAILED
            && printed.error.as_slice() == b"mqjudge: read failed\n".as_slice()
            && shown.iter().filter(|byte| **byte == b'\n').count() == lines
            && WHOLE_LINES.as_bytes().starts_with(shown),
    )
}

#[test]
fn reports_a_failed_read(rt: HostRuntime) -> Result<(), Fail> {
    for (fails_after, lines) in [(0, 0), (7, 0), (13, 1), (42, 2), (43, 3), (76, 7)] {
        assert!(rt;
            is_cut_short(rt.alloc(), fails_after, lines)?,
            "{fails_after} bytes"
        );
    }
    Ok(())
}

#[test]
fn reports_a_failed_write(rt: HostRuntime) -> Result<(), Fail> {
    let short = &WHOLE_LOG[..75];
    for (log, room, stays) in [
        (WHOLE_LOG, 0, false),
        (WHOLE_LOG, 20, false),
        (WHOLE_LOG, 194, false),
        (WHOLE_LOG, 10_000, true),
        (short, 198, false),
        (short, 10_000, true),
    ] {
        let output = Narrow { room, stays };
        let failed = is_failed_write(rt.alloc(), &SHOW, log, output)?;
        assert!(rt; failed, "{room} bytes");
    }
    Ok(())
}

// With each allocation failing in turn, the result is the log's, or that memory ran out, after the
// lines up to there.
#[test]
fn reports_a_show_without_memory(rt: HostRuntime) {
    let mut output = Cursor::new([0; 1024]);
    let mut error = Cursor::new([0; 64]);
    let status = status_by(rt.alloc(), &SHOW, LOG_OF_ALL, &mut output, &mut error);
    let written = output.position() as usize;
    assert!(rt; written <= LINES_OF_ALL.len());
    assert!(rt;
        output
            .get_ref()
            .starts_with(&LINES_OF_ALL.as_bytes()[..written])
    );
    let complaint: &[u8] = if status == PASSED {
        assert_eq!(rt; written, LINES_OF_ALL.len());
        b""
    } else {
        assert_eq!(rt; status, FAILED);
        b"mqjudge: out of memory\n"
    };
    assert!(rt; is_written(&error, complaint));
}
