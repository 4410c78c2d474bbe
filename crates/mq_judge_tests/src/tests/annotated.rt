//! Logs that are shown with the faults at their events.
use mq_display::{Extent, show_faults, show_long};
use mq_harness::Part::{Open, Recv, Rest, Sent};
use mq_harness::{
    CLIENT, CONNACK, CONNECT, HEADER, PINGREQ, PINGRESP, PUBACK, PUBLISH_ONCE,
    PUBLISH_UNIDENTIFIED, Part, add_record, log_of,
};
use mq_judge::{Choice, RunFault, judge_reader};
use mq_log::Refusal;
use std::alloc::{AllocError, Global};
use std::fmt::Write as _;
use std::ops::Range;
use std::test::Fail;

// A client that sends a PUBLISH of QoS 1 and, with the same Packet Identifier, another one.
const IN_USE: &[Part] = &[
    Open,
    Sent(CONNECT),
    Recv(CONNACK),
    Sent(PUBLISH_ONCE),
    Sent(PUBLISH_ONCE),
    Recv(PUBACK),
];

const IN_USE_ALL: &str = "1 record 1 OPEN\n\
    2 record 2 SENT CONNECT size 15\n\
    3 record 3 RECV CONNACK size 5\n\
    4 record 4 SENT PUBLISH size 9 qos 1 dup 0 id 1\n\
    5 record 5 SENT PUBLISH size 9 qos 1 dup 0 id 1\n\
    \x20 fault S01 MQTT-2.2.1-3 A new PUBLISH, SUBSCRIBE or UNSUBSCRIBE takes no Packet Identifier that is in use.\n\
    6 record 6 RECV PUBACK size 4 id 1\n";

const IN_USE_AROUND_0: &str = "..\n\
    5 record 5 SENT PUBLISH size 9 qos 1 dup 0 id 1\n\
    \x20 fault S01 MQTT-2.2.1-3 A new PUBLISH, SUBSCRIBE or UNSUBSCRIBE takes no Packet Identifier that is in use.\n\
    ..\n";

const IN_USE_AROUND_1: &str = "..\n\
    4 record 4 SENT PUBLISH size 9 qos 1 dup 0 id 1\n\
    5 record 5 SENT PUBLISH size 9 qos 1 dup 0 id 1\n\
    \x20 fault S01 MQTT-2.2.1-3 A new PUBLISH, SUBSCRIBE or UNSUBSCRIBE takes no Packet Identifier that is in use.\n\
    6 record 6 RECV PUBACK size 4 id 1\n";

// A client that doesn't answer a PUBLISH of QoS 1 before the session rests, and then sends one
// whose Packet Identifier is 0.
const TWO_FAULTS: &[Part] = &[
    Open,
    Sent(CONNECT),
    Recv(CONNACK),
    Recv(PUBLISH_ONCE),
    Sent(PINGREQ),
    Recv(PINGRESP),
    Rest,
    Sent(PUBLISH_UNIDENTIFIED),
];

const TWO_FAULTS_AROUND_0: &str = "..\n\
    4 record 4 RECV PUBLISH size 9 qos 1 dup 0 id 1\n\
    \x20 fault E1R MQTT-4.3.2-4 A PUBLISH of QoS 1 is answered by a PUBACK. (decided at event 7)\n\
    ..\n\
    8 record 8 SENT BAD W09 offset 5 type PUBLISH bytes 32 07 00 01 61 [00] 00 00 78\n\
    \x20 fault W09 sec-2.2.1 A Packet Identifier isn't 0. (offset 5)\n";

// A client's log, the `around` of its view, and what is shown.
static ROWS: [(&[Part], Option<u32>, &str); 6] = [
    (IN_USE, None, IN_USE_ALL),
    (IN_USE, Some(4), IN_USE_ALL),
    (IN_USE, Some(0), IN_USE_AROUND_0),
    (IN_USE, Some(1), IN_USE_AROUND_1),
    (IN_USE, Some(u32::MAX), IN_USE_ALL),
    (TWO_FAULTS, Some(0), TWO_FAULTS_AROUND_0),
];

// Whether the log is shown as this text, with the faults that the judge finds in it.
fn is_shown(alloc: Global, log: &[u8], around: Option<u32>, text: &[u8]) -> Result<bool, Fail> {
    let Ok((verdict, role)) = judge_reader(alloc, &mut &log[..], Choice::Usual) else {
        return Ok(false);
    };
    let mut written = Vec::new(alloc);
    let shown = show_faults(
        alloc,
        &verdict.faults,
        &[],
        role,
        Extent {
            around,
            long: false,
        },
        &mut &log[..],
        &mut written,
    );
    Ok(shown == Ok(()) && written.as_slice() == text)
}

// The same of the log of a client with these parts.
fn are_shown(alloc: Global, parts: &[Part], around: Option<u32>, text: &str) -> Result<bool, Fail> {
    let log = log_of(alloc, CLIENT, parts)?;
    is_shown(alloc, &log, around, text.as_bytes())
}

#[test]
fn shows_faults_under_their_events(rt: HostRuntime) -> Result<(), Fail> {
    for (parts, around, text) in &ROWS {
        assert!(rt; are_shown(rt.alloc(), parts, *around, text)?, "{text}");
    }
    Ok(())
}

// The positions of the packets whose identifier is 0.
const FAULTY: Range<u32> = 4..3004;

// A client's log in which each of these packets has a fault.
fn log_of_faults(alloc: Global) -> Result<Vec<u8>, AllocError> {
    let mut log = log_of(alloc, CLIENT, &[Open, Sent(CONNECT), Recv(CONNACK)])?;
    for _position in FAULTY {
        add_record(&mut log, 2, PUBLISH_UNIDENTIFIED)?;
    }
    Ok(log)
}

// What is shown of it: its packets, each with its fault.
fn lines_of_faults(alloc: Global) -> Result<String, Fail> {
    let mut text = String::new(alloc);
    text.push_str("..\n")?;
    for position in FAULTY {
        write!(
            text,
            "{position} record {position} SENT BAD W09 offset 5 \
            type PUBLISH bytes 32 07 00 01 61 [00] 00 00 78\n\
            \x20 fault W09 sec-2.2.1 A Packet Identifier isn't 0. (offset 5)\n"
        )?;
    }
    Ok(text)
}

// Whether it is shown so.
fn are_faults_shown(alloc: Global) -> Result<bool, Fail> {
    let log = log_of_faults(alloc)?;
    let text = lines_of_faults(alloc)?;
    is_shown(alloc, log.as_slice(), Some(0), text.as_bytes())
}

#[test]
fn shows_3000_faults(rt: HostRuntime) -> Result<(), Fail> {
    assert!(rt; are_faults_shown(rt.alloc())?);
    Ok(())
}

// Why a log isn't judged, if it isn't.
fn refusal_of(alloc: Global, mut log: &[u8]) -> Option<RunFault> {
    judge_reader(alloc, &mut log, Choice::Usual).err()
}

#[test]
fn refuses_a_log_that_is_cut_short(rt: HostRuntime) {
    let cut = RunFault::Refused(Refusal::Cut(7));
    assert_eq!(rt; refusal_of(rt.alloc(), &HEADER[..7]), Some(cut));
}

// How showing a log in long lines ends, and whether this text is written.
fn shown_long(alloc: Global, mut log: &[u8], text: &str) -> (Result<(), RunFault>, bool) {
    let mut written = Vec::new(alloc);
    let answer = show_long(alloc, &mut log, &mut written);
    (answer, written.as_slice() == text.as_bytes())
}

// The events up to there are shown.
#[test]
fn stops_at_the_end_of_a_log_that_is_cut_short(rt: HostRuntime) {
    let log = b"MQTR\x01\x00\x01\x00\x01\x00\x00\x00\x00\x02";
    let cut = RunFault::Refused(Refusal::Cut(14));
    assert_eq!(rt;
        shown_long(rt.alloc(), log.as_slice(), "1 record 1 OPEN\n"),
        (Err(cut), true)
    );
}
