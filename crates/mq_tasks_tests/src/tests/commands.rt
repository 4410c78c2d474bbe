//! The command line, and `check`.
use mq_command::EarlyExit;
use mq_host::{FAILED, FAULTY, MISUSED, Outlet, PASSED, REFUSED};
use mq_tasks::stop;
use mq_tasks_harness::{
    Narrow, Trickle, WHOLE_LOG, is_failed_write, is_written, printed_by, status_by,
};
use std::alloc::{AllocError, Global};
use std::io::Cursor;
use std::test::Fail;

const HEADER: &[u8] = b"MQTR\x01\x00\x01\x00";

const OPEN: &[u8] = b"\x01\x00\x00\x00\x00";

const CLOSE: &[u8] = b"\x04\x00\x00\x00\x00";

const REST: &[u8] = b"\x05\x00\x00\x00\x00";

// Under identifier 1.
const RELEASE: &[u8] = b"\x06\x00\x00\x00\x02\x00\x01";

const SENT_CONNECT: &[u8] = b"\x02\x00\x00\x00\x0f\x10\x0d\x00\x04MQTT\x05\x02\x00\x3c\x00\x00\x00";

const RECV_CONNACK: &[u8] = b"\x03\x00\x00\x00\x05\x20\x03\x00\x00\x00";

const SENT_PUBLISH: &[u8] = b"\x02\x00\x00\x00\x09\x32\x07\x00\x01a\x00\x01\x00x";

const RECV_PUBACK: &[u8] = b"\x03\x00\x00\x00\x04\x40\x02\x00\x01";

// A PUBLISH of QoS 1 under identifier 0.
const SENT_UNIDENTIFIED: &[u8] = b"\x02\x00\x00\x00\x09\x32\x07\x00\x01a\x00\x00\x00x";

// The fixed header of a PUBLISH of the largest size, 268,435,460 bytes.
const SENT_LARGEST: &[u8] = b"\x02\x00\x00\x00\x05\x30\xff\xff\xff\x7f";

// A CONNECT of MQTT 3.1.1.
const SENT_OLD_CONNECT: &[u8] = b"\x02\x00\x00\x00\x0e\x10\x0c\x00\x04MQTT\x04\x02\x00\x3c\x00\x00";

// A client takes an identifier that is in use: the list of events and the faults both grow.
const TAKEN_TWICE: &[u8] = b"MQTR\x01\x00\x01\x00\
    \x01\x00\x00\x00\x00\
    \x02\x00\x00\x00\x0f\x10\x0d\x00\x04MQTT\x05\x02\x00\x3c\x00\x00\x00\
    \x03\x00\x00\x00\x05\x20\x03\x00\x00\x00\
    \x02\x00\x00\x00\x09\x32\x07\x00\x01a\x00\x01\x00x\
    \x02\x00\x00\x00\x09\x32\x07\x00\x01a\x00\x01\x00x\
    \x03\x00\x00\x00\x04\x40\x02\x00\x01";

const CHECK: [&str; 2] = ["mqjudge", "check"];

// A log, in parts, and the expected result.
struct Row {
    log: &'static [&'static [u8]],
    status: u8,
    report: &'static str,
}

static ROWS: [Row; 10] = [
    Row {
        log: &[HEADER],
        status: PASSED,
        report: "pass 0 events\n",
    },
    Row {
        log: &[b"MQTR\x01\x00\x01"],
        status: REFUSED,
        report: "refused 10 Cut at 7\n",
    },
    Row {
        log: &[WHOLE_LOG],
        status: PASSED,
        report: "pass 7 events\n",
    },
    Row {
        log: &[
            HEADER,
            OPEN,
            SENT_CONNECT,
            RECV_CONNACK,
            SENT_PUBLISH,
            SENT_PUBLISH,
            RECV_PUBACK,
        ],
        status: FAULTY,
        report: "fault 5 S01 MQTT-2.2.1-3 decided 5 record 5 offset -\nfail 1 faults 6 events\n",
    },
    Row {
        log: &[HEADER, OPEN, SENT_CONNECT, RECV_CONNACK, SENT_UNIDENTIFIED],
        status: FAULTY,
        report: "fault 4 W09 sec-2.2.1 decided 4 record 4 offset 5\nfail 1 faults 4 events\n",
    },
    Row {
        log: &[HEADER, OPEN, OPEN],
        status: REFUSED,
        report: "refused 7 Nested at 13\n",
    },
    Row {
        log: &[HEADER, OPEN, SENT_OLD_CONNECT],
        status: REFUSED,
        report: "refused 12 OtherVersion at 31\n",
    },
    Row {
        log: &[HEADER, OPEN, SENT_CONNECT, RECV_CONNACK, SENT_LARGEST],
        status: REFUSED,
        report: "refused 11 TooLarge at 52\n",
    },
    Row {
        log: &[HEADER, OPEN, b"\x02\x00\x10\x00\x01"],
        status: REFUSED,
        report: "refused 6 Length at 17\n",
    },
    Row {
        log: &[b"MQTR\x01\x00\x00\x00", RELEASE],
        status: REFUSED,
        report: "refused 9 ReleaseUnrecorded at 8\n",
    },
];

fn joined(alloc: Global, parts: &[&[u8]]) -> Result<Vec<u8>, AllocError> {
    let mut whole = Vec::new(alloc);
    for part in parts {
        whole.extend_from_slice(part)?;
    }
    Ok(whole)
}

// Whether a check of this log, read at once and then byte by byte, writes this and nothing else.
pub fn is_printed(alloc: Global, log: &[u8], status: u8, report: &str) -> Result<bool, EarlyExit> {
    let whole = printed_by(alloc, &CHECK, &mut &log[..])?;
    let cut = printed_by(alloc, &CHECK, &mut Trickle::of(log, None))?;
    Ok(whole.says(status, report) && cut.says(status, report))
}

#[test]
fn judges_logs_whole_and_byte_by_byte(rt: HostRuntime) -> Result<(), Fail> {
    for row in &ROWS {
        let log = joined(rt.alloc(), row.log)?;
        assert!(rt;
            is_printed(rt.alloc(), &log, row.status, row.report)?,
            "{}",
            row.report
        );
    }
    Ok(())
}

#[test]
fn reports_a_failed_read(rt: HostRuntime) -> Result<(), Fail> {
    for fails_after in [0, 3, 8] {
        let mut input = Trickle::of(HEADER, Some(fails_after));
        let printed = printed_by(rt.alloc(), &CHECK, &mut input)?;
        assert!(rt; printed.complains(FAILED, "mqjudge: read failed\n"));
    }
    Ok(())
}

#[test]
fn reports_a_failed_write(rt: HostRuntime) -> Result<(), Fail> {
    let short = &HEADER[..7];
    for (log, room, stays) in [
        (HEADER, 0, false),
        (HEADER, 5, false),
        (HEADER, 100, true),
        (short, 0, false),
        (short, 100, true),
    ] {
        let output = Narrow { room, stays };
        let failed = is_failed_write(rt.alloc(), &CHECK, log, output)?;
        assert!(rt; failed, "{room} bytes");
    }
    Ok(())
}

// With each allocation failing in turn, the result is the log's, or that memory ran out, and
// nothing else.
#[test]
fn reports_want_of_memory(rt: HostRuntime) {
    let mut output = Cursor::new([0; 128]);
    let mut error = Cursor::new([0; 64]);
    let status = status_by(rt.alloc(), &CHECK, TAKEN_TWICE, &mut output, &mut error);
    let (report, complaint): (&[u8], &[u8]) = if status == FAULTY {
        (
            b"fault 5 S01 MQTT-2.2.1-3 decided 5 record 5 offset -\nfail 1 faults 6 events\n",
            b"",
        )
    } else {
        assert_eq!(rt; status, FAILED);
        (b"", b"mqjudge: out of memory\n")
    };
    assert!(rt; is_written(&output, report) && is_written(&error, complaint));
}

// A misuse whose text is longer than 64 bytes, as most are.
#[test]
fn writes_all_of_a_long_misuse(rt: HostRuntime) -> Result<(), Fail> {
    let text = "error: unexpected argument 'b' found\n\n\
        Usage: mqjudge check [OPTIONS] [FILE]\n\nFor more information, try '--help'.\n";
    let usage = EarlyExit::Usage(String::from_str(rt.alloc(), text)?);
    assert!(rt; is_stopped(rt.alloc(), &usage, MISUSED, "", text));
    Ok(())
}

// Whether a stop ends with this status, this output and this message.
fn is_stopped(alloc: Global, why: &EarlyExit, status: u8, shown: &str, printed: &str) -> bool {
    let mut output = Outlet::new(Vec::new(alloc));
    let mut error = Vec::new(alloc);
    stop(why, &mut output, &mut error) == status
        && output.get_ref().as_slice() == shown.as_bytes()
        && error.as_slice() == printed.as_bytes()
}

#[test]
fn reports_why_there_is_no_task(rt: HostRuntime) -> Result<(), Fail> {
    let text = "mqjudge 0.1.0\n";
    let help = EarlyExit::Help(String::from_str(rt.alloc(), text)?);
    let usage = EarlyExit::Usage(String::from_str(rt.alloc(), text)?);
    let memory = "mqjudge: out of memory\n";
    assert!(rt; is_stopped(rt.alloc(), &help, PASSED, text, ""));
    assert!(rt; is_stopped(rt.alloc(), &usage, MISUSED, "", text));
    assert!(rt; is_stopped(rt.alloc(), &EarlyExit::Memory, FAILED, "", memory));
    Ok(())
}

// Whether a stop fails that is written to an output with this little room, and has this message.
fn fails_to_stop(alloc: Global, why: &EarlyExit, output: Narrow, said: &str) -> bool {
    let mut error = Vec::new(alloc);
    stop(why, &mut Outlet::new(output), &mut error) == FAILED && error.as_slice() == said.as_bytes()
}

#[test]
fn reports_a_failed_write_of_help(rt: HostRuntime) -> Result<(), Fail> {
    let help = EarlyExit::Help(String::from_str(rt.alloc(), "mqjudge 0.1.0\n")?);
    for (room, stays, said) in [(5, false, "mqjudge: write failed\n"), (100, true, "")] {
        assert!(rt; fails_to_stop(rt.alloc(), &help, Narrow { room, stays }, said));
    }
    Ok(())
}
