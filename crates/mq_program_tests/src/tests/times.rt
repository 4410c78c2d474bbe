//! The statements on times, and the option that asks for them.
use super::harness::{Judged, assert_rows};
use mq_tasks_harness::{Desk, GOOD, does};
use std::alloc::Global;
use std::process::Abort;

// A client with a Keep Alive of a second, whose PINGREQ comes 2.9 seconds after the CONNACK.
const SILENT: &[u8] = b"MQTR\x02\x00\x01\x00\
    \x01\x00\x00\x00\x00\x00\x00\x00\x00\x00\x00\x00\x00\
    \x02\x00\x00\x00\x0f\x00\x00\x00\x00\x00\x00\x00\x00\x10\x0d\x00\x04MQTT\x05\x02\x00\x01\x00\x00\x00\
    \x03\x00\x00\x00\x05\x00\x00\x00\x00\x00\x01\x86\xa0\x20\x03\x00\x00\x00\
    \x02\x00\x00\x00\x02\x00\x00\x00\x00\x00\x2d\xc6\xc0\xc0\x00";

// The same as the server has it, whose limit is 6.5 seconds: that CONNECT and CONNACK, and a PINGREQ
// 7 seconds after the CONNECT.
const LEFT_OPEN: &[u8] = b"MQTR\x02\x01\x01\x00\
    \x01\x00\x00\x00\x00\x00\x00\x00\x00\x00\x00\x00\x00\
    \x03\x00\x00\x00\x10\x00\x00\x00\x00\x00\x00\x00\x00\x10\x0e\x00\x04MQTT\x05\x02\x00\x01\x00\x00\x01c\
    \x02\x00\x00\x00\x05\x00\x00\x00\x00\x00\x00\x00\x00\x20\x03\x00\x00\x00\
    \x03\x00\x00\x00\x02\x00\x00\x00\x00\x00\x6a\xcf\xc0\xc0\x00";

const PASS: &str = "pass 4 events\n";

const FAIL: &str = "fault 4 K01 MQTT-3.1.2-20,MQTT-3.2.2-21 decided 4 record 4 offset -\n\
    fail 1 faults 4 events\n";

const FAIL_WHY: &str = "fault 4 K01 MQTT-3.1.2-20,MQTT-3.2.2-21 decided 4 record 4 offset -\n\
    because 4 K01 event 3 numbers 2900000 2250000\n\
    fail 1 faults 4 events\n";

const FAIL_OF_SERVER: &str = "fault 4 K02 MQTT-3.1.2-22,MQTT-3.2.2-22 decided 4 record 4 offset -\n\
    fail 1 faults 4 events\n";

const LINES: &str = "1 record 1 moment 0 OPEN\n\
    2 record 2 moment 0 SENT CONNECT size 15\n\
    3 record 3 moment 100000 RECV CONNACK size 5\n\
    4 record 4 moment 3000000 SENT PINGREQ size 2\n";

const FAULTY_LINES: &str = "1 record 1 moment 0 OPEN\n\
    2 record 2 moment 0 SENT CONNECT size 15\n\
    3 record 3 moment 100000 RECV CONNACK size 5\n\
    4 record 4 moment 3000000 SENT PINGREQ size 2\n\
    \x20 fault K01 MQTT-3.1.2-20,MQTT-3.2.2-21 A client isn't silent for longer than the Keep Alive. \
    (because of event 3: nothing came from the client for 2900000 microseconds, and the limit is 2250000)\n";

static CHECKS: [Judged; 10] = [
    (&["mqjudge", "check", "a.log"], SILENT, 0, PASS),
    (&["mqjudge", "check", "--all", "a.log"], SILENT, 0, PASS),
    (&["mqjudge", "check", "--times", "a.log"], SILENT, 1, FAIL),
    (
        &["mqjudge", "check", "--times", "--all", "a.log"],
        SILENT,
        1,
        FAIL,
    ),
    (
        &["mqjudge", "check", "--statements", "all", "a.log"],
        SILENT,
        0,
        PASS,
    ),
    (
        &["mqjudge", "check", "--statements", "times,-all", "a.log"],
        SILENT,
        1,
        FAIL,
    ),
    (
        &["mqjudge", "check", "--why", "--times", "a.log"],
        SILENT,
        1,
        FAIL_WHY,
    ),
    (&["mqjudge", "check", "--all", "a.log"], LEFT_OPEN, 0, PASS),
    (
        &["mqjudge", "check", "--times", "a.log"],
        LEFT_OPEN,
        1,
        FAIL_OF_SERVER,
    ),
    (
        &["mqjudge", "check", "--statements=-times,K02", "a.log"],
        LEFT_OPEN,
        1,
        FAIL_OF_SERVER,
    ),
];

#[test]
fn judges_by_times_if_the_words_ask_for_it(rt: HostRuntime) {
    assert_rows(&rt, &CHECKS);
}

static SHOWS: [Judged; 4] = [
    (&["mqjudge", "show", "a.log"], SILENT, 0, LINES),
    (&["mqjudge", "show", "--faults", "a.log"], SILENT, 0, LINES),
    (
        &["mqjudge", "show", "--faults", "--all", "a.log"],
        SILENT,
        0,
        LINES,
    ),
    (
        &["mqjudge", "show", "--times", "--faults", "a.log"],
        SILENT,
        0,
        FAULTY_LINES,
    ),
];

#[test]
fn shows_what_is_late_if_the_words_ask_for_it(rt: HostRuntime) {
    assert_rows(&rt, &SHOWS);
}

const TWO_CHOICES: &str =
    "mqjudge: --all, --times and --statements choose statements: give one of them\n";

const NO_FAULTS: &str = "mqjudge: --all and --times need --faults\n";

// Words that are refused, and what is said.
type Misused = (&'static [&'static str], &'static str);

static MISUSES: [Misused; 6] = [
    (
        &["mqjudge", "check", "--times", "--statements", "W", "a.log"],
        TWO_CHOICES,
    ),
    (
        &[
            "mqjudge",
            "check",
            "--why",
            "--times",
            "--statements",
            "K",
            "a.log",
        ],
        TWO_CHOICES,
    ),
    (
        &["mqjudge", "rules", "--all", "--times", "--statements", "K"],
        TWO_CHOICES,
    ),
    (&["mqjudge", "show", "--times", "a.log"], NO_FAULTS),
    (&["mqjudge", "show", "--all", "--times", "a.log"], NO_FAULTS),
    (
        &["mqjudge", "show", "--times", "--around", "1", "a.log"],
        "mqjudge: --around needs --faults\n",
    ),
];

// Whether these are, with a log that could be judged by times.
fn is_misuse(alloc: Global, words: &'static [&'static str], said: &str) -> bool {
    let mut desk = Desk::of(alloc, words, SILENT, GOOD);
    does(&mut desk, 3, "", said)
}

// Asserts that the words of each row are.
fn assert_misuses(rt: &(impl Abort + AllocGlobal), rows: &[Misused]) {
    for (words, said) in rows {
        assert!(rt; is_misuse(rt.alloc(), *words, said), "{words:?}");
    }
}

#[test]
fn refuses_times_where_all_is_refused(rt: HostRuntime) {
    assert_misuses(&rt, &MISUSES);
}
