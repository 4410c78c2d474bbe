//! What an UNSUBACK says of filters, and the options that ask for it to be judged.
use super::harness::{Judged, assert_rows};

// A server that answers an UNSUBSCRIBE of `a`, which is subscribed, and of `b`, which never was:
// its UNSUBACK says that the first subscription didn't exist, and that the second was deleted.
const CONFUSED: &[u8] = b"MQTR\x01\x01\x01\x00\
    \x01\x00\x00\x00\x00\
    \x03\x00\x00\x00\x10\x10\x0e\x00\x04MQTT\x05\x02\x00\x3c\x00\x00\x01c\
    \x02\x00\x00\x00\x05\x20\x03\x00\x00\x00\
    \x03\x00\x00\x00\x09\x82\x07\x00\x01\x00\x00\x01a\x00\
    \x02\x00\x00\x00\x06\x90\x04\x00\x01\x00\x00\
    \x03\x00\x00\x00\x0b\xa2\x09\x00\x02\x00\x00\x01a\x00\x01b\
    \x02\x00\x00\x00\x07\xb0\x05\x00\x02\x00\x11\x00";

// The same, with the Reason Codes in their order.
const RIGHT: &[u8] = b"MQTR\x01\x01\x01\x00\
    \x01\x00\x00\x00\x00\
    \x03\x00\x00\x00\x10\x10\x0e\x00\x04MQTT\x05\x02\x00\x3c\x00\x00\x01c\
    \x02\x00\x00\x00\x05\x20\x03\x00\x00\x00\
    \x03\x00\x00\x00\x09\x82\x07\x00\x01\x00\x00\x01a\x00\
    \x02\x00\x00\x00\x06\x90\x04\x00\x01\x00\x00\
    \x03\x00\x00\x00\x0b\xa2\x09\x00\x02\x00\x00\x01a\x00\x01b\
    \x02\x00\x00\x00\x07\xb0\x05\x00\x02\x00\x00\x11";

const PASS: &str = "pass 7 events\n";

const BOTH: &str = "fault 7 B06 MQTT-3.10.4-1 decided 7 record 7 offset -\n\
    fault 7 B07 sec-3.11.3 decided 7 record 7 offset -\n\
    fail 2 faults 7 events\n";

const BOTH_WHY: &str = "fault 7 B06 MQTT-3.10.4-1 decided 7 record 7 offset -\n\
    because 7 B06 event 6\n\
    fault 7 B07 sec-3.11.3 decided 7 record 7 offset -\n\
    because 7 B07 event 6\n\
    fail 2 faults 7 events\n";

const DENIED: &str = "fault 7 B06 MQTT-3.10.4-1 decided 7 record 7 offset -\n\
    fail 1 faults 7 events\n";

const DELETED: &str = "fault 7 B07 sec-3.11.3 decided 7 record 7 offset -\n\
    fail 1 faults 7 events\n";

const LISTED: &str =
    "B06 server MQTT-3.10.4-1 No UNSUBACK says of a subscription that it doesn't exist.\n\
    B07 server sec-3.11.3 No UNSUBACK says that a filter was deleted which was never subscribed.\n";

const LINES: &str = "1 record 1 OPEN\n\
    2 record 2 RECV CONNECT size 16\n\
    3 record 3 SENT CONNACK size 5\n\
    4 record 4 RECV SUBSCRIBE size 9 id 1\n\
    5 record 5 SENT SUBACK size 6 id 1\n\
    6 record 6 RECV UNSUBSCRIBE size 11 id 2\n\
    7 record 7 SENT UNSUBACK size 7 id 2\n";

const FAULTY_LINES: &str = "1 record 1 OPEN\n\
    2 record 2 RECV CONNECT size 16\n\
    3 record 3 SENT CONNACK size 5\n\
    4 record 4 RECV SUBSCRIBE size 9 id 1\n\
    5 record 5 SENT SUBACK size 6 id 1\n\
    6 record 6 RECV UNSUBSCRIBE size 11 id 2\n\
    7 record 7 SENT UNSUBACK size 7 id 2\n\
    \x20 fault B06 MQTT-3.10.4-1 No UNSUBACK says of a subscription that it doesn't exist. \
    (because of event 6: the UNSUBSCRIBE, for a filter that was subscribed)\n\
    \x20 fault B07 sec-3.11.3 No UNSUBACK says that a filter was deleted which was never subscribed. \
    (because of event 6: the UNSUBSCRIBE, for a filter that was never subscribed)\n";

static CHECKS: [Judged; 10] = [
    (&["mqjudge", "check", "a.log"], CONFUSED, 0, PASS),
    (&["mqjudge", "check", "--all", "a.log"], CONFUSED, 1, BOTH),
    (&["mqjudge", "check", "--times", "a.log"], CONFUSED, 1, BOTH),
    (&["mqjudge", "check", "--all", "a.log"], RIGHT, 0, PASS),
    (
        &["mqjudge", "check", "--statements", "B06", "a.log"],
        CONFUSED,
        1,
        DENIED,
    ),
    (
        &["mqjudge", "check", "--statements=-all,B07", "a.log"],
        CONFUSED,
        1,
        DELETED,
    ),
    (
        &["mqjudge", "check", "--statements", "B,-B06", "a.log"],
        CONFUSED,
        1,
        DELETED,
    ),
    (
        &["mqjudge", "check", "--statements", "all,-B06,-B07", "a.log"],
        CONFUSED,
        0,
        PASS,
    ),
    (
        &["mqjudge", "check", "--why", "--all", "a.log"],
        CONFUSED,
        1,
        BOTH_WHY,
    ),
    (
        &["mqjudge", "rules", "--statements", "B06,B07"],
        CONFUSED,
        0,
        LISTED,
    ),
];

#[test]
fn judges_what_an_unsuback_says_if_the_words_ask_for_it(rt: HostRuntime) {
    assert_rows(&rt, &CHECKS);
}

static SHOWS: [Judged; 3] = [
    (
        &["mqjudge", "show", "--faults", "a.log"],
        CONFUSED,
        0,
        LINES,
    ),
    (
        &["mqjudge", "show", "--faults", "--all", "a.log"],
        RIGHT,
        0,
        LINES,
    ),
    (
        &["mqjudge", "show", "--faults", "--all", "a.log"],
        CONFUSED,
        0,
        FAULTY_LINES,
    ),
];

#[test]
fn shows_what_an_unsuback_says_if_the_words_ask_for_it(rt: HostRuntime) {
    assert_rows(&rt, &SHOWS);
}
