//! The whole program, with files, outputs and a clock of its own.
use mq_host::{Outlet, Trouble};
use mq_tasks::run;
use mq_tasks_harness::{Desk, FAULTY, GOOD, NESTED};
use std::alloc::Global;
use std::process::Abort;

const PASS: &str = "pass 4 events\n";

const FAIL: &str = "fault 4 W09 sec-2.2.1 decided 4 record 4 offset 5\nfail 1 faults 4 events\n";

const LINES: &str = "1 record 1 OPEN\n\
    2 record 2 SENT CONNECT size 15\n\
    3 record 3 RECV CONNACK size 5\n\
    4 record 4 SENT PUBLISH size 9 qos 1 dup 0 id 1\n";

const REFUSED: &str = "refused 7 Nested at 13\n";

const REFUSED_LINES: &str = "1 record 1 OPEN\nrefused 7 Nested at 13\n";

const MISUSE: &str = "error: unexpected argument 'b' found\n\n\
    Usage: mqjudge check [OPTIONS] [FILE]\n\n\
    For more information, try '--help'.\n\
    mqjudge: check takes one log; recorders/judge takes many\n";

const B_MISSING: &str = "mqjudge: read failed\nmqjudge: b.log: there is no such file\n";

const DASH_MISSING: &str = "mqjudge: read failed\nmqjudge: ./-: there is no such file\n";

const OTHER_MISSING: &str = "mqjudge: read failed\nmqjudge: ./a.log: there is no such file\n";

const WORDS_MISSING: &str =
    "mqjudge: read failed\nmqjudge: the command line: there is no such file\n";

const NO_MEMORY: &str = "mqjudge: out of memory\n";

// What the host has, and what the program does.
struct Row {
    words: &'static [&'static str],
    file: &'static [u8],
    input: &'static [u8],
    status: u8,
    output: &'static str,
    error: &'static str,
}

// A server that announces Maximum QoS 1, and accepts a Will of QoS 2.
const WILLING: &[u8] = b"MQTR\x01\x01\x01\x00\
    \x01\x00\x00\x00\x00\
    \x03\x00\x00\x00\x16\x10\x14\x00\x04MQTT\x05\x16\x00\x3c\x00\x00\x01c\x00\x00\x01t\x00\x00\
    \x02\x00\x00\x00\x07\x20\x05\x00\x00\x02\x24\x01";

static ROWS: [Row; 36] = [
    Row {
        words: &["mqjudge", "check", "--statements", "F,-F06", "a.log"],
        file: WILLING,
        input: GOOD,
        status: 1,
        output: "fault 3 F05 MQTT-3.2.2-12 decided 3 record 3 offset -\nfail 1 faults 3 events\n",
        error: "",
    },
    Row {
        words: &["mqjudge", "check", "--statements", "all,-F", "a.log"],
        file: WILLING,
        input: GOOD,
        status: 0,
        output: "pass 3 events\n",
        error: "",
    },
    Row {
        words: &["mqjudge", "check", "--statements", "W09", "a.log"],
        file: FAULTY,
        input: GOOD,
        status: 1,
        output: FAIL,
        error: "",
    },
    Row {
        words: &["mqjudge", "check", "--statements=-W09", "a.log"],
        file: FAULTY,
        input: GOOD,
        status: 0,
        output: PASS,
        error: "",
    },
    Row {
        words: &["mqjudge", "check", "--why", "--statements=-W09", "a.log"],
        file: FAULTY,
        input: GOOD,
        status: 0,
        output: PASS,
        error: "",
    },
    Row {
        words: &["mqjudge", "check", "--all", "--statements", "W", "c.log"],
        file: FAULTY,
        input: GOOD,
        status: 3,
        output: "",
        error: "mqjudge: --all, --times and --statements choose statements: give one of them\n",
    },
    Row {
        words: &[
            "mqjudge",
            "rules",
            "--statements",
            "B,-B01,-B03,-B04,-B05,-B06,-B07,-B08,-B09",
        ],
        file: GOOD,
        input: GOOD,
        status: 0,
        output: "B02 server MQTT-3.8.4-8 A PUBLISH from the server isn't at a QoS above what was granted.\n",
        error: "",
    },
    Row {
        words: &["mqjudge", "check", "a.log"],
        file: WILLING,
        input: GOOD,
        status: 0,
        output: "pass 3 events\n",
        error: "",
    },
    Row {
        words: &["mqjudge", "check", "--all", "a.log"],
        file: WILLING,
        input: GOOD,
        status: 1,
        output: "fault 3 F05 MQTT-3.2.2-12 decided 3 record 3 offset -\nfail 1 faults 3 events\n",
        error: "",
    },
    Row {
        words: &["mqjudge", "check", "a.log"],
        file: GOOD,
        input: FAULTY,
        status: 0,
        output: PASS,
        error: "",
    },
    Row {
        words: &["mqjudge", "check", "a.log"],
        file: FAULTY,
        input: GOOD,
        status: 1,
        output: FAIL,
        error: "",
    },
    Row {
        words: &["mqjudge", "check", "a.log"],
        file: NESTED,
        input: GOOD,
        status: 2,
        output: REFUSED,
        error: "",
    },
    Row {
        words: &["mqjudge", "check", "b.log"],
        file: GOOD,
        input: GOOD,
        status: 4,
        output: "",
        error: B_MISSING,
    },
    Row {
        words: &["mqjudge", "check"],
        file: FAULTY,
        input: GOOD,
        status: 0,
        output: PASS,
        error: "",
    },
    Row {
        words: &["mqjudge", "check", "-"],
        file: FAULTY,
        input: GOOD,
        status: 0,
        output: PASS,
        error: "",
    },
    Row {
        words: &["mqjudge", "check", "./-"],
        file: GOOD,
        input: GOOD,
        status: 4,
        output: "",
        error: DASH_MISSING,
    },
    Row {
        words: &["mqjudge", "check", "a.log", "b"],
        file: GOOD,
        input: GOOD,
        status: 3,
        output: "",
        error: MISUSE,
    },
    Row {
        words: &["mqjudge", "show", "a.log"],
        file: GOOD,
        input: NESTED,
        status: 0,
        output: LINES,
        error: "",
    },
    Row {
        words: &["mqjudge", "show", "a.log"],
        file: NESTED,
        input: GOOD,
        status: 2,
        output: REFUSED_LINES,
        error: "",
    },
    Row {
        words: &["mqjudge", "show", "b.log"],
        file: GOOD,
        input: GOOD,
        status: 4,
        output: "",
        error: B_MISSING,
    },
    Row {
        words: &["mqjudge", "show"],
        file: NESTED,
        input: GOOD,
        status: 0,
        output: LINES,
        error: "",
    },
    Row {
        words: &["mqjudge", "show", "-"],
        file: NESTED,
        input: GOOD,
        status: 0,
        output: LINES,
        error: "",
    },
    Row {
        words: &["mqjudge", "packet", "C000"],
        file: GOOD,
        input: GOOD,
        status: 0,
        output: "PINGREQ size 2\n",
        error: "",
    },
    Row {
        words: &["mqjudge", "packet", "C100"],
        file: GOOD,
        input: GOOD,
        status: 1,
        output: "BAD W01 offset 0\n",
        error: "",
    },
    Row {
        words: &["mqjudge", "packet", "C"],
        file: GOOD,
        input: GOOD,
        status: 3,
        output: "",
        error: "mqjudge: a digit is missing after character 1, `C`\n",
    },
    Row {
        words: &["mqjudge", "--version"],
        file: GOOD,
        input: GOOD,
        status: 0,
        output: "mqjudge 0.1.0 (reads log versions 1 and 2, judges 74 statements)\n",
        error: "",
    },
    Row {
        words: &[],
        file: GOOD,
        input: GOOD,
        status: 4,
        output: "",
        error: WORDS_MISSING,
    },
    Row {
        words: &["mqjudge", "check", "--json"],
        file: GOOD,
        input: b"MQTR\x01\x00\x01\x00",
        status: 0,
        output: "{\"events\":0,\"faults\":[],\"verdict\":\"pass\"}\n",
        error: "",
    },
    Row {
        words: &["mqjudge", "check", "--json", "--summary"],
        file: GOOD,
        input: b"MQTR\x01\x00\x01",
        status: 2,
        output: "{\"at\":7,\"name\":\"Cut\",\"refused\":10}\n",
        error: "",
    },
    Row {
        words: &["mqjudge", "check", "--json", "a.log"],
        file: FAULTY,
        input: GOOD,
        status: 1,
        output: "{\"events\":4,\"faults\":[{\"citation\":\"sec-2.2.1\",\"code\":\"W09\",\"decided\":4,\
        \"offset\":5,\"position\":4,\"record\":4}],\"verdict\":\"fail\"}\n",
        error: "",
    },
    Row {
        words: &["mqjudge", "check", "--summary", "a.log"],
        file: FAULTY,
        input: GOOD,
        status: 1,
        output: "W09 sec-2.2.1 faults 1 first 4 record 4\nfail 1 faults 4 events\n",
        error: "",
    },
    Row {
        words: &["mqjudge", "check", "--summary", "a.log"],
        file: NESTED,
        input: GOOD,
        status: 2,
        output: REFUSED,
        error: "",
    },
    Row {
        words: &["mqjudge", "rules", "--role", "broker"],
        file: GOOD,
        input: GOOD,
        status: 3,
        output: "",
        error: "mqjudge: no role broker\nmqjudge: there are client and server\n",
    },
    Row {
        words: &["mqjudge", "packet", "4:0"],
        file: GOOD,
        input: GOOD,
        status: 3,
        output: "",
        error: "mqjudge: character 2, `:`, is no hexadecimal digit\n",
    },
    Row {
        words: &["mqjudge", "packet", "-"],
        file: GOOD,
        input: b"40 02\n00 0A\n",
        status: 0,
        output: "PUBACK size 4 id 10\n",
        error: "",
    },
    Row {
        words: &["mqjudge", "packet", "-"],
        file: GOOD,
        input: b"4",
        status: 3,
        output: "",
        error: "mqjudge: a digit is missing after character 1, `4`\n",
    },
];

const FAULTY_LINES: &str = "1 record 1 OPEN\n\
    2 record 2 SENT CONNECT size 15\n\
    3 record 3 RECV CONNACK size 5\n\
    4 record 4 SENT BAD W09 offset 5 type PUBLISH bytes 32 07 00 01 61 [00] 00 00 78\n\
    \x20 fault W09 sec-2.2.1 A Packet Identifier isn't 0. (offset 5)\n";

const NEAR_LINES: &str = "..\n\
    4 record 4 SENT BAD W09 offset 5 type PUBLISH bytes 32 07 00 01 61 [00] 00 00 78\n\
    \x20 fault W09 sec-2.2.1 A Packet Identifier isn't 0. (offset 5)\n";

const NO_FILE: &str =
    "mqjudge: --faults reads the log more than once, so it needs a FILE, not standard input\n";

static REVIEWS: [Row; 19] = [
    Row {
        words: &["mqjudge", "show", "--all", "a.log"],
        file: FAULTY,
        input: GOOD,
        status: 3,
        output: "",
        error: "mqjudge: --all and --times need --faults\n",
    },
    Row {
        words: &["mqjudge", "show", "--all", "--around", "1", "a.log"],
        file: FAULTY,
        input: GOOD,
        status: 3,
        output: "",
        error: "mqjudge: --around needs --faults\n",
    },
    Row {
        words: &["mqjudge", "show", "--all", "--faults", "a.log"],
        file: GOOD,
        input: FAULTY,
        status: 0,
        output: LINES,
        error: "",
    },
    Row {
        words: &["mqjudge", "show", "--faults", "a.log"],
        file: FAULTY,
        input: NESTED,
        status: 0,
        output: FAULTY_LINES,
        error: "",
    },
    Row {
        words: &["mqjudge", "show", "--faults", "--around", "1", "./a.log"],
        file: FAULTY,
        input: FAULTY,
        status: 4,
        output: "",
        error: OTHER_MISSING,
    },
    Row {
        words: &["mqjudge", "show", "--around", "0", "a.log", "--faults"],
        file: FAULTY,
        input: NESTED,
        status: 0,
        output: NEAR_LINES,
        error: "",
    },
    Row {
        words: &[
            "mqjudge",
            "show",
            "--faults",
            "--around=4294967295",
            "a.log",
        ],
        file: FAULTY,
        input: NESTED,
        status: 0,
        output: FAULTY_LINES,
        error: "",
    },
    Row {
        words: &["mqjudge", "show", "--faults", "a.log"],
        file: GOOD,
        input: FAULTY,
        status: 0,
        output: LINES,
        error: "",
    },
    Row {
        words: &["mqjudge", "show", "--faults", "a.log"],
        file: NESTED,
        input: GOOD,
        status: 2,
        output: REFUSED,
        error: "",
    },
    Row {
        words: &["mqjudge", "show", "--faults"],
        file: GOOD,
        input: GOOD,
        status: 3,
        output: "",
        error: NO_FILE,
    },
    Row {
        words: &["mqjudge", "show", "--faults", "-"],
        file: GOOD,
        input: GOOD,
        status: 3,
        output: "",
        error: NO_FILE,
    },
    Row {
        words: &["mqjudge", "show", "--around", "1", "a.log"],
        file: GOOD,
        input: GOOD,
        status: 3,
        output: "",
        error: "mqjudge: --around needs --faults\n",
    },
    Row {
        words: &["mqjudge", "show", "--around", "x"],
        file: GOOD,
        input: GOOD,
        status: 3,
        output: "",
        error: "mqjudge: --around needs --faults\n",
    },
    Row {
        words: &["mqjudge", "show", "--faults", "--around", "x", "a.log"],
        file: GOOD,
        input: GOOD,
        status: 3,
        output: "",
        error: "mqjudge: no number x\n",
    },
    Row {
        words: &["mqjudge", "show", "--faults", "--around=-1", "a.log"],
        file: GOOD,
        input: GOOD,
        status: 3,
        output: "",
        error: "mqjudge: no number -1\n",
    },
    Row {
        words: &[
            "mqjudge",
            "show",
            "--faults",
            "--around=4294967296",
            "a.log",
        ],
        file: GOOD,
        input: GOOD,
        status: 3,
        output: "",
        error: "mqjudge: no number 4294967296\n",
    },
    Row {
        words: &["mqjudge", "show", "--faults", "--around=", "a.log"],
        file: GOOD,
        input: GOOD,
        status: 3,
        output: "",
        error: "mqjudge: no number \n",
    },
    // The file is taken for the number.
    Row {
        words: &["mqjudge", "show", "--faults", "--around", "bad.log"],
        file: GOOD,
        input: GOOD,
        status: 3,
        output: "",
        error: "mqjudge: no number bad.log\n",
    },
    Row {
        words: &["mqjudge", "show", "--faults", "-", "--around", "x"],
        file: GOOD,
        input: GOOD,
        status: 3,
        output: "",
        error: "mqjudge: no number x\n",
    },
];

const FAIL_WHY: &str = "fault 4 W09 sec-2.2.1 decided 4 record 4 offset 5\n\
    because 4 W09 event -\n\
    fail 1 faults 4 events\n";

const NO_FILE_FOR_WHY: &str =
    "mqjudge: --why may read the log twice, so it needs a FILE, not standard input\n";

const TWO_REPORTS: &str = "mqjudge: --why and --coverage are two reports: ask for one at a time\n";

static INQUIRIES: [Row; 10] = [
    Row {
        words: &["mqjudge", "check", "--why", "--all", "a.log"],
        file: WILLING,
        input: GOOD,
        status: 1,
        output: "fault 3 F05 MQTT-3.2.2-12 decided 3 record 3 offset -\n\
            because 3 F05 event 2\n\
            fail 1 faults 3 events\n",
        error: "",
    },
    Row {
        words: &["mqjudge", "check", "--why", "a.log"],
        file: FAULTY,
        input: NESTED,
        status: 1,
        output: FAIL_WHY,
        error: "",
    },
    Row {
        words: &["mqjudge", "check", "a.log", "--why"],
        file: GOOD,
        input: FAULTY,
        status: 0,
        output: PASS,
        error: "",
    },
    Row {
        words: &["mqjudge", "check", "--why", "--json", "a.log"],
        file: GOOD,
        input: FAULTY,
        status: 0,
        output: "{\"events\":4,\"faults\":[],\"verdict\":\"pass\"}\n",
        error: "",
    },
    Row {
        words: &["mqjudge", "check", "--why", "a.log"],
        file: NESTED,
        input: GOOD,
        status: 2,
        output: REFUSED,
        error: "",
    },
    Row {
        words: &["mqjudge", "check", "--why"],
        file: GOOD,
        input: GOOD,
        status: 3,
        output: "",
        error: NO_FILE_FOR_WHY,
    },
    Row {
        words: &["mqjudge", "check", "--why", "-"],
        file: GOOD,
        input: FAULTY,
        status: 3,
        output: "",
        error: NO_FILE_FOR_WHY,
    },
    Row {
        words: &["mqjudge", "check", "--why", "--coverage", "a.log"],
        file: FAULTY,
        input: GOOD,
        status: 3,
        output: "",
        error: TWO_REPORTS,
    },
    Row {
        words: &["mqjudge", "check", "--why", "--coverage"],
        file: FAULTY,
        input: GOOD,
        status: 3,
        output: "",
        error: TWO_REPORTS,
    },
    Row {
        words: &["mqjudge", "check", "--why", "b.log"],
        file: GOOD,
        input: GOOD,
        status: 4,
        output: "",
        error: B_MISSING,
    },
];

// The host fails at these for want of memory.
static UNREADABLE: [Row; 3] = [
    Row {
        words: &["mqjudge", "check", "b.log"],
        file: GOOD,
        input: GOOD,
        status: 4,
        output: "",
        error: NO_MEMORY,
    },
    Row {
        words: &["mqjudge", "show", "b.log"],
        file: GOOD,
        input: GOOD,
        status: 4,
        output: "",
        error: NO_MEMORY,
    },
    Row {
        words: &[],
        file: GOOD,
        input: GOOD,
        status: 4,
        output: "",
        error: NO_MEMORY,
    },
];

// A host that gives what the row has.
fn desk_of(alloc: Global, row: &Row) -> Desk {
    Desk::of(alloc, row.words, row.file, row.input)
}

// Whether the program does this with the row's words, on this host.
fn does(desk: &mut Desk, row: &Row) -> bool {
    let mut output = Outlet::new(Vec::new(desk.alloc));
    let mut error = Vec::new(desk.alloc);
    run(desk.alloc, desk, &mut output, &mut error, &mut ()) == row.status
        && output.get_ref().as_slice() == row.output.as_bytes()
        && error.as_slice() == row.error.as_bytes()
}

// Whether it does on a host that gives what the row has.
fn is_row_done(alloc: Global, row: &Row) -> bool {
    let mut desk = desk_of(alloc, row);
    does(&mut desk, row)
}

// Asserts that it does for each row.
fn assert_rows(rt: &(impl Abort + AllocGlobal), rows: &[Row]) {
    for row in rows {
        assert!(rt; is_row_done(rt.alloc(), row), "{:?}", row.words);
    }
}

#[test]
fn does_what_the_words_ask_for(rt: HostRuntime) {
    assert_rows(&rt, &ROWS);
}

#[test]
fn shows_the_faults_that_the_words_ask_for(rt: HostRuntime) {
    assert_rows(&rt, &REVIEWS);
}

#[test]
fn says_why_if_the_words_ask_for_it(rt: HostRuntime) {
    assert_rows(&rt, &INQUIRIES);
}

// Whether it does on a host that fails for want of memory.
fn is_failure_named(alloc: Global, row: &Row) -> bool {
    let mut desk = desk_of(alloc, row);
    desk.trouble = Trouble::Memory;
    does(&mut desk, row)
}

// Asserts that it does for each row.
fn assert_failures(rt: &(impl Abort + AllocGlobal), rows: &[Row]) {
    for row in rows {
        assert!(rt; is_failure_named(rt.alloc(), row), "{:?}", row.words);
    }
}

#[test]
fn names_what_the_host_failed_at(rt: HostRuntime) {
    assert_failures(&rt, &UNREADABLE);
}
