//! `show --faults`.
use mq_display::Extent;
use mq_host::{Failure, PASSED, REFUSED};
use mq_rules::Further;
use mq_tasks::{Lapse, Plan, show_reasoned};
use mq_tasks_harness::{CONNECTED, CONNECTED_LINES, NESTED, Narrow, Trickle, add_record};
use std::alloc::{AllocError, Global};
use std::fmt::Write as _;
use std::io::Cursor;
use std::test::Fail;

// A client doesn't answer a PUBLISH before its end rests, and then sends a SUBACK, which it may not
// send, under identifier 0.
const THREE_FAULTS: &[u8] = b"MQTR\x01\x00\x01\x00\
    \x01\x00\x00\x00\x00\
    \x02\x00\x00\x00\x0f\x10\x0d\x00\x04MQTT\x05\x02\x00\x3c\x00\x00\x00\
    \x03\x00\x00\x00\x05\x20\x03\x00\x00\x00\
    \x03\x00\x00\x00\x09\x32\x07\x00\x01a\x00\x01\x00x\
    \x02\x00\x00\x00\x02\xc0\x00\
    \x03\x00\x00\x00\x02\xd0\x00\
    \x05\x00\x00\x00\x00\
    \x02\x00\x00\x00\x05\x90\x03\x00\x00\x00\
    \x04\x00\x00\x00\x00";

const ALL: &str = "1 record 1 OPEN\n\
    2 record 2 SENT CONNECT size 15\n\
    3 record 3 RECV CONNACK size 5\n\
    4 record 4 RECV PUBLISH size 9 qos 1 dup 0 id 1\n\
    \x20 fault E1R MQTT-4.3.2-4 A PUBLISH of QoS 1 is answered by a PUBACK. \
    (because of event 7: the REST, with no answer before it) (decided at event 7)\n\
    5 record 5 SENT PINGREQ size 2\n\
    6 record 6 RECV PINGRESP size 2\n\
    7 record 7 REST\n\
    8 record 8 SENT BAD W09 offset 2 type SUBACK bytes 90 03 [00] 00 00\n\
    \x20 fault W09 sec-2.2.1 A Packet Identifier isn't 0. (offset 2)\n\
    \x20 fault C01 sec-2.1.2 A packet has a type that this end may send.\n\
    9 record 9 CLOSE\n";

const AROUND_0: &str = "..\n\
    4 record 4 RECV PUBLISH size 9 qos 1 dup 0 id 1\n\
    \x20 fault E1R MQTT-4.3.2-4 A PUBLISH of QoS 1 is answered by a PUBACK. \
    (because of event 7: the REST, with no answer before it) (decided at event 7)\n\
    ..\n\
    8 record 8 SENT BAD W09 offset 2 type SUBACK bytes 90 03 [00] 00 00\n\
    \x20 fault W09 sec-2.2.1 A Packet Identifier isn't 0. (offset 2)\n\
    \x20 fault C01 sec-2.1.2 A packet has a type that this end may send.\n\
    ..\n";

const AROUND_1: &str = "..\n\
    3 record 3 RECV CONNACK size 5\n\
    4 record 4 RECV PUBLISH size 9 qos 1 dup 0 id 1\n\
    \x20 fault E1R MQTT-4.3.2-4 A PUBLISH of QoS 1 is answered by a PUBACK. \
    (because of event 7: the REST, with no answer before it) (decided at event 7)\n\
    5 record 5 SENT PINGREQ size 2\n\
    ..\n\
    7 record 7 REST\n\
    8 record 8 SENT BAD W09 offset 2 type SUBACK bytes 90 03 [00] 00 00\n\
    \x20 fault W09 sec-2.2.1 A Packet Identifier isn't 0. (offset 2)\n\
    \x20 fault C01 sec-2.1.2 A packet has a type that this end may send.\n\
    9 record 9 CLOSE\n";

const LONG_AROUND_0: &str = "..\n\
    4 record 4 RECV PUBLISH size 9 qos 1 dup 0 id 1 retain 0 topic \"a\" payload 1\n\
    \x20 fault E1R MQTT-4.3.2-4 A PUBLISH of QoS 1 is answered by a PUBACK. \
    (because of event 7: the REST, with no answer before it) (decided at event 7)\n\
    ..\n\
    8 record 8 SENT BAD W09 offset 2 type SUBACK bytes 90 03 [00] 00 00\n\
    \x20 fault W09 sec-2.2.1 A Packet Identifier isn't 0. (offset 2)\n\
    \x20 fault C01 sec-2.1.2 A packet has a type that this end may send.\n\
    ..\n";

// A log, the number after `--around`, whether lines are long, and what is shown.
static ROWS: [(&[u8], Option<u32>, bool, &str); 9] = [
    (THREE_FAULTS, None, false, ALL),
    (THREE_FAULTS, Some(0), false, AROUND_0),
    (THREE_FAULTS, Some(1), false, AROUND_1),
    (THREE_FAULTS, Some(3), false, ALL),
    (THREE_FAULTS, Some(u32::MAX), false, ALL),
    (THREE_FAULTS, Some(0), true, LONG_AROUND_0),
    (CONNECTED, None, false, CONNECTED_LINES),
    (CONNECTED, Some(1_000), false, "..\n"),
    (b"MQTR\x01\x00\x01\x00", Some(0), false, ""),
];

fn plan(around: Option<u32>, long: bool) -> Plan<'static> {
    Plan {
        path: "a.log",
        extent: Extent { around, long },
        further: Further::NONE,
    }
}

// Whether judging the first log, reading the second one again and showing the third one, byte by
// byte, gives this and writes this.
fn gives(
    alloc: Global,
    plan: Plan<'_>,
    logs: [&[u8]; 3],
    wanted: Result<u8, Lapse>,
    text: &str,
) -> bool {
    let [judged, again, shown] = logs;
    let mut output = Vec::new(alloc);
    let given = show_reasoned(
        alloc,
        plan,
        true,
        &mut Trickle::of(judged, None),
        &mut Trickle::of(again, None),
        &mut Trickle::of(shown, None),
        &mut output,
    );
    given == wanted && output.as_slice() == text.as_bytes()
}

#[test]
fn shows_faults_under_their_events(rt: HostRuntime) {
    for (log, around, long, text) in ROWS {
        let plan = plan(around, long);
        assert!(rt;
            gives(rt.alloc(), plan, [log, log, log], Ok(PASSED), text),
            "{text}"
        );
    }
}

// Nothing is known of the faults of a log that is refused.
#[test]
fn shows_nothing_of_a_refused_log(rt: HostRuntime) {
    for (log, line) in [
        (&NESTED[..7], "refused 10 Cut at 7\n"),
        (NESTED, "refused 7 Nested at 13\n"),
    ] {
        let logs = [log, log, log];
        assert!(rt;
            gives(rt.alloc(), plan(Some(1), true), logs, Ok(REFUSED), line),
            "{line}"
        );
    }
}

// The file changed after it was judged and read again: the faults are those of what was judged.
#[test]
fn shows_what_the_last_reading_gives(rt: HostRuntime) {
    let from_the_last = "..\n2 record 2 SENT CONNECT size 15\n3 record 3 RECV CONNACK size 5\n";
    let cut = "..\nrefused 10 Cut at 14\n";
    for (judged, shown, status, text) in [
        (CONNECTED, THREE_FAULTS, PASSED, "..\n"),
        (THREE_FAULTS, CONNECTED, PASSED, from_the_last),
        (THREE_FAULTS, &CONNECTED[..14], REFUSED, cut),
    ] {
        let logs = [judged, judged, shown];
        let printed = gives(rt.alloc(), plan(Some(2), false), logs, Ok(status), text);
        assert!(rt; printed, "{text}");
    }
}

// It was refused when it was read again, or had another verdict: nothing is shown.
#[test]
fn shows_nothing_of_a_log_that_changed(rt: HostRuntime) {
    for again in [CONNECTED, &THREE_FAULTS[..14], NESTED] {
        let logs = [THREE_FAULTS, again, THREE_FAULTS];
        assert!(rt; gives(rt.alloc(), plan(None, false), logs, Err(Lapse::Changed), ""));
    }
}

// A log without faults isn't read again.
#[test]
fn reads_a_faultless_log_twice(rt: HostRuntime) {
    for again in [THREE_FAULTS, NESTED, b""] {
        let logs = [CONNECTED, again, CONNECTED];
        assert!(rt;
            gives(
                rt.alloc(),
                plan(None, false),
                logs,
                Ok(PASSED),
                CONNECTED_LINES
            )
        );
    }
}

#[test]
fn reports_a_failed_reading(rt: HostRuntime) {
    for (judging, explaining, display, written) in [
        (Some(20), None, None, ""),
        (None, Some(20), None, ""),
        (None, None, Some(13), "1 record 1 OPEN\n"),
    ] {
        let mut output = Vec::new(rt.alloc());
        let given = show_reasoned(
            rt.alloc(),
            plan(None, false),
            true,
            &mut Trickle::of(THREE_FAULTS, judging),
            &mut Trickle::of(THREE_FAULTS, explaining),
            &mut Trickle::of(THREE_FAULTS, display),
            &mut output,
        );
        assert_eq!(rt; given, Err(Lapse::Failed(Failure::Read)));
        assert!(rt; output.as_slice() == written.as_bytes());
    }
}

#[test]
fn reports_a_failed_write(rt: HostRuntime) {
    for (log, room, stays) in [
        (THREE_FAULTS, 0, false),
        (THREE_FAULTS, 100, false),
        (THREE_FAULTS, 10_000, true),
        (&THREE_FAULTS[..7], 10, false),
    ] {
        let given = show_reasoned(
            rt.alloc(),
            plan(None, false),
            true,
            &mut Trickle::of(log, None),
            &mut Trickle::of(log, None),
            &mut Trickle::of(log, None),
            &mut Narrow { room, stays },
        );
        assert_eq!(rt; given, Err(Lapse::Failed(Failure::Write)), "{room} bytes");
    }
}

// With each allocation failing in turn, all is shown, or memory ran out, after what was shown up to
// there.
#[test]
fn reports_a_review_without_memory(rt: HostRuntime) {
    let mut output = Cursor::new([0; 1024]);
    let given = show_reasoned(
        rt.alloc(),
        plan(None, false),
        true,
        &mut &THREE_FAULTS[..],
        &mut &THREE_FAULTS[..],
        &mut &THREE_FAULTS[..],
        &mut output,
    );
    let written = output.position() as usize;
    assert!(rt; written <= ALL.len());
    assert!(rt; output.get_ref().starts_with(&ALL.as_bytes()[..written]));
    if given == Ok(PASSED) {
        assert_eq!(rt; written, ALL.len());
    } else {
        assert_eq!(rt; given, Err(Lapse::Failed(Failure::Memory)));
    }
}

// A log of 3,000 packets whose Packet Identifier is 0.
fn log_of_faults(alloc: Global) -> Result<Vec<u8>, AllocError> {
    let mut log = Vec::new(alloc);
    log.extend_from_slice(CONNECTED)?;
    for _packet in 0..3_000 {
        add_record(&mut log, 2, b"\x32\x07\x00\x01a\x00\x00\x00x")?;
    }
    Ok(log)
}

// What is shown of it.
fn lines_of_faults(alloc: Global) -> Result<String, Fail> {
    let mut text = String::new(alloc);
    text.push_str("..\n")?;
    for position in 4..3_004_u32 {
        write!(
            text,
            "{position} record {position} SENT BAD W09 offset 5 \
            type PUBLISH bytes 32 07 00 01 61 [00] 00 00 78\n\
            \x20 fault W09 sec-2.2.1 A Packet Identifier isn't 0. (offset 5)\n"
        )?;
    }
    Ok(text)
}

#[test]
fn shows_3000_faults(rt: HostRuntime) -> Result<(), Fail> {
    let log = log_of_faults(rt.alloc())?;
    let text = lines_of_faults(rt.alloc())?;
    let logs = [log.as_slice(), log.as_slice(), log.as_slice()];
    let plan = plan(Some(0), false);
    assert!(rt; gives(rt.alloc(), plan, logs, Ok(PASSED), text.as_str()));
    Ok(())
}
