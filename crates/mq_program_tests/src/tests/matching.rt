//! What a server delivers for which subscriptions, also shared ones, and the options by which it is
//! judged.
use super::harness::{Judged, assert_rows};

// A server whose client has subscribed with the Subscription Identifier 1, at QoS 0: to `a` shared
// in a group, and to `c` without retained messages. It sends `b`, then `a` with QoS 1, RETAIN 1 and
// no identifier, and then `c` with RETAIN 1 and the identifier 2.
const ASTRAY: &[u8] = b"MQTR\x01\x01\x01\x00\
    \x01\x00\x00\x00\x00\
    \x03\x00\x00\x00\x10\x10\x0e\x00\x04MQTT\x05\x02\x00\x3c\x00\x00\x01c\
    \x02\x00\x00\x00\x05\x20\x03\x00\x00\x00\
    \x03\x00\x00\x00\x18\x82\x16\x00\x01\x02\x0b\x01\x00\x0a$share/g/a\x00\x00\x01c\x20\
    \x02\x00\x00\x00\x07\x90\x05\x00\x01\x00\x00\x00\
    \x02\x00\x00\x00\x07\x30\x05\x00\x01b\x00x\
    \x02\x00\x00\x00\x09\x33\x07\x00\x01a\x00\x01\x00x\
    \x02\x00\x00\x00\x09\x31\x07\x00\x01c\x02\x0b\x02x";

// The same client gets `a` and `c` as it asked for them.
const RIGHT: &[u8] = b"MQTR\x01\x01\x01\x00\
    \x01\x00\x00\x00\x00\
    \x03\x00\x00\x00\x10\x10\x0e\x00\x04MQTT\x05\x02\x00\x3c\x00\x00\x01c\
    \x02\x00\x00\x00\x05\x20\x03\x00\x00\x00\
    \x03\x00\x00\x00\x18\x82\x16\x00\x01\x02\x0b\x01\x00\x0a$share/g/a\x00\x00\x01c\x20\
    \x02\x00\x00\x00\x07\x90\x05\x00\x01\x00\x00\x00\
    \x02\x00\x00\x00\x09\x30\x07\x00\x01a\x02\x0b\x01x\
    \x02\x00\x00\x00\x09\x30\x07\x00\x01c\x02\x0b\x01x";

// The deliveries that went astray, to a client that has subscribed to all topics too, at QoS 1 and
// with Retain As Published 1: once with the identifier 2, and then without one.
const OVERLAPPED: &[u8] = b"MQTR\x01\x01\x01\x00\
    \x01\x00\x00\x00\x00\
    \x03\x00\x00\x00\x10\x10\x0e\x00\x04MQTT\x05\x02\x00\x3c\x00\x00\x01c\
    \x02\x00\x00\x00\x05\x20\x03\x00\x00\x00\
    \x03\x00\x00\x00\x18\x82\x16\x00\x01\x02\x0b\x01\x00\x0a$share/g/a\x00\x00\x01c\x20\
    \x02\x00\x00\x00\x07\x90\x05\x00\x01\x00\x00\x00\
    \x03\x00\x00\x00\x0b\x82\x09\x00\x02\x02\x0b\x02\x00\x01#\x09\
    \x02\x00\x00\x00\x06\x90\x04\x00\x02\x00\x01\
    \x03\x00\x00\x00\x09\x82\x07\x00\x03\x00\x00\x01#\x09\
    \x02\x00\x00\x00\x06\x90\x04\x00\x03\x00\x01\
    \x02\x00\x00\x00\x07\x30\x05\x00\x01b\x00x\
    \x02\x00\x00\x00\x09\x33\x07\x00\x01a\x00\x01\x00x\
    \x02\x00\x00\x00\x09\x31\x07\x00\x01c\x02\x0b\x02x";

const PASS: &str = "pass 8 events\n";

const RIGHT_PASS: &str = "pass 7 events\n";

const OVERLAPPED_PASS: &str = "pass 12 events\n";

const ALL_SIX: &str = "fault 6 B08 MQTT-3.3.2-3 decided 6 record 6 offset -\n\
    fault 7 B09 MQTT-3.8.4-8,MQTT-4.8.2-3 decided 7 record 7 offset -\n\
    fault 7 P02 MQTT-3.3.4-3 decided 7 record 7 offset -\n\
    fault 7 R02 sec-4.8.2 decided 7 record 7 offset -\n\
    fault 8 P01 sec-3.3.4 decided 8 record 8 offset -\n\
    fault 8 R01 MQTT-3.3.1-11,MQTT-3.3.1-12 decided 8 record 8 offset -\n\
    fail 6 faults 8 events\n";

const ALL_SIX_WHY: &str = "fault 6 B08 MQTT-3.3.2-3 decided 6 record 6 offset -\n\
    because 6 B08 event -\n\
    fault 7 B09 MQTT-3.8.4-8,MQTT-4.8.2-3 decided 7 record 7 offset -\n\
    because 7 B09 event 4\n\
    fault 7 P02 MQTT-3.3.4-3 decided 7 record 7 offset -\n\
    because 7 P02 event 4\n\
    fault 7 R02 sec-4.8.2 decided 7 record 7 offset -\n\
    because 7 R02 event 4\n\
    fault 8 P01 sec-3.3.4 decided 8 record 8 offset -\n\
    because 8 P01 event 4\n\
    fault 8 R01 MQTT-3.3.1-11,MQTT-3.3.1-12 decided 8 record 8 offset -\n\
    because 8 R01 event 4\n\
    fail 6 faults 8 events\n";

const NEW_FAMILIES: &str = "fault 7 P02 MQTT-3.3.4-3 decided 7 record 7 offset -\n\
    fault 7 R02 sec-4.8.2 decided 7 record 7 offset -\n\
    fault 8 P01 sec-3.3.4 decided 8 record 8 offset -\n\
    fault 8 R01 MQTT-3.3.1-11,MQTT-3.3.1-12 decided 8 record 8 offset -\n\
    fail 4 faults 8 events\n";

const ABOVE: &str = "fault 7 B09 MQTT-3.8.4-8,MQTT-4.8.2-3 decided 7 record 7 offset -\n\
    fail 1 faults 8 events\n";

const RETAINED: &str = "fault 7 R02 sec-4.8.2 decided 7 record 7 offset -\n\
    fail 1 faults 8 events\n";

const LISTED: &str =
    "B08 server MQTT-3.3.2-3 A PUBLISH from the server matches a subscription, where some are shared.\n\
    B09 server MQTT-3.8.4-8,MQTT-4.8.2-3 A PUBLISH isn't at a QoS above what was granted, where some are shared.\n\
    P01 server sec-3.3.4 A Subscription Identifier of a PUBLISH is that of a matching subscription.\n\
    P02 server MQTT-3.3.4-3 A PUBLISH has a Subscription Identifier, if each matching subscription has.\n\
    R01 server MQTT-3.3.1-11,MQTT-3.3.1-12 RETAIN is 0 where no matching subscription asks for anything else.\n\
    R02 server sec-4.8.2 No retained message is sent for a shared subscription.\n";

const LINES: &str = "1 record 1 OPEN\n\
    2 record 2 RECV CONNECT size 16\n\
    3 record 3 SENT CONNACK size 5\n\
    4 record 4 RECV SUBSCRIBE size 24 id 1\n\
    5 record 5 SENT SUBACK size 7 id 1\n\
    6 record 6 SENT PUBLISH size 7 qos 0 dup 0\n\
    7 record 7 SENT PUBLISH size 9 qos 1 dup 0 id 1\n\
    8 record 8 SENT PUBLISH size 9 qos 0 dup 0\n";

const FAULTY_LINES: &str = "1 record 1 OPEN\n\
    2 record 2 RECV CONNECT size 16\n\
    3 record 3 SENT CONNACK size 5\n\
    4 record 4 RECV SUBSCRIBE size 24 id 1\n\
    5 record 5 SENT SUBACK size 7 id 1\n\
    6 record 6 SENT PUBLISH size 7 qos 0 dup 0\n\
    \x20 fault B08 MQTT-3.3.2-3 A PUBLISH from the server matches a subscription, where some are shared.\n\
    7 record 7 SENT PUBLISH size 9 qos 1 dup 0 id 1\n\
    \x20 fault B09 MQTT-3.8.4-8,MQTT-4.8.2-3 A PUBLISH isn't at a QoS above what was granted, where some are shared. \
    (because of event 4: the SUBSCRIBE that matches)\n\
    \x20 fault P02 MQTT-3.3.4-3 A PUBLISH has a Subscription Identifier, if each matching subscription has. \
    (because of event 4: the SUBSCRIBE that matches)\n\
    \x20 fault R02 sec-4.8.2 No retained message is sent for a shared subscription. \
    (because of event 4: the SUBSCRIBE that matches)\n\
    8 record 8 SENT PUBLISH size 9 qos 0 dup 0\n\
    \x20 fault P01 sec-3.3.4 A Subscription Identifier of a PUBLISH is that of a matching subscription. \
    (because of event 4: the SUBSCRIBE that matches)\n\
    \x20 fault R01 MQTT-3.3.1-11,MQTT-3.3.1-12 RETAIN is 0 where no matching subscription asks for anything else. \
    (because of event 4: the SUBSCRIBE that matches)\n";

const RIGHT_LINES: &str = "1 record 1 OPEN\n\
    2 record 2 RECV CONNECT size 16\n\
    3 record 3 SENT CONNACK size 5\n\
    4 record 4 RECV SUBSCRIBE size 24 id 1\n\
    5 record 5 SENT SUBACK size 7 id 1\n\
    6 record 6 SENT PUBLISH size 9 qos 0 dup 0\n\
    7 record 7 SENT PUBLISH size 9 qos 0 dup 0\n";

static CHECKS: [Judged; 11] = [
    (&["mqjudge", "check", "a.log"], ASTRAY, 0, PASS),
    (&["mqjudge", "check", "--all", "a.log"], ASTRAY, 1, ALL_SIX),
    (
        &["mqjudge", "check", "--times", "a.log"],
        ASTRAY,
        1,
        ALL_SIX,
    ),
    (
        &["mqjudge", "check", "--all", "a.log"],
        RIGHT,
        0,
        RIGHT_PASS,
    ),
    (
        &["mqjudge", "check", "--all", "a.log"],
        OVERLAPPED,
        0,
        OVERLAPPED_PASS,
    ),
    (
        &["mqjudge", "check", "--statements", "P,R", "a.log"],
        ASTRAY,
        1,
        NEW_FAMILIES,
    ),
    (
        &["mqjudge", "check", "--statements", "B,-B08", "a.log"],
        ASTRAY,
        1,
        ABOVE,
    ),
    (
        &["mqjudge", "check", "--statements=-all,R,-R01", "a.log"],
        ASTRAY,
        1,
        RETAINED,
    ),
    (
        &["mqjudge", "check", "--statements", "all,-B,-P,-R", "a.log"],
        ASTRAY,
        0,
        PASS,
    ),
    (
        &["mqjudge", "check", "--why", "--all", "a.log"],
        ASTRAY,
        1,
        ALL_SIX_WHY,
    ),
    (
        &["mqjudge", "rules", "--statements", "B08,B09,P,R"],
        ASTRAY,
        0,
        LISTED,
    ),
];

#[test]
fn judges_what_is_delivered_if_the_words_ask_for_it(rt: HostRuntime) {
    assert_rows(&rt, &CHECKS);
}

static SHOWS: [Judged; 3] = [
    (&["mqjudge", "show", "--faults", "a.log"], ASTRAY, 0, LINES),
    (
        &["mqjudge", "show", "--faults", "--all", "a.log"],
        RIGHT,
        0,
        RIGHT_LINES,
    ),
    (
        &["mqjudge", "show", "--faults", "--all", "a.log"],
        ASTRAY,
        0,
        FAULTY_LINES,
    ),
];

#[test]
fn shows_what_is_delivered_if_the_words_ask_for_it(rt: HostRuntime) {
    assert_rows(&rt, &SHOWS);
}
