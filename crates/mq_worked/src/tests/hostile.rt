//! Logs that end anywhere, bytes that are no packets, a reader without an end, and as many messages
//! in flight as can be.
use super::plain::are_faults_alike;
use mq_harness::Part::{Close, Open, Recv, Rest, Sent};
use mq_harness::{
    CLIENT, CONNACK, CONNECT, FAULTY, PASSED, PUBACK, PUBLISH_ONCE, Part, REFUSED, add_record,
    is_reported, log_of, reports, weight_of,
};
use mq_judge::Form;
use std::alloc::{AllocError, Global};
use std::io;
use std::test::Fail;

const CONNECTED: [Part; 3] = [Open, Sent(CONNECT), Recv(CONNACK)];

// A message is sent and acknowledged, in 76 bytes.
const ANSWERED: [Part; 7] = [
    Open,
    Sent(CONNECT),
    Recv(CONNACK),
    Sent(PUBLISH_ONCE),
    Recv(PUBACK),
    Rest,
    Close,
];

// How many bytes its header and the events up to each have, but for the last one.
const ENDS: [usize; 7] = [8, 13, 33, 43, 57, 66, 71];

// Whether the first `count` bytes of the log are judged as they should be: they pass if no record
// is cut short.
fn is_beginning_judged(alloc: Global, log: &[u8], count: usize) -> Result<bool, Fail> {
    let (outcome, report) = match ENDS.iter().position(|end| *end == count) {
        Some(events) => (PASSED, format!(in alloc; "pass {events} events\n")?),
        None => (REFUSED, format!(in alloc; "refused 10 Cut at {count}\n")?),
    };
    is_reported(alloc, log, outcome, report.as_str())
}

#[test]
fn judges_each_beginning_of_a_log(rt: HostRuntime) -> Result<(), Fail> {
    let log = log_of(rt.alloc(), CLIENT, &ANSWERED)?;
    for count in 0..log.len() {
        let judged = is_beginning_judged(rt.alloc(), &log[..count], count)?;
        assert!(rt; judged, "{count} bytes");
    }
    Ok(())
}

#[test]
fn refuses_a_reader_without_end(rt: HostRuntime) -> Result<(), Fail> {
    let text = "refused 1 Header at 0\n";
    let json = "{\"at\":0,\"name\":\"Header\",\"refused\":1}\n";
    for (form, report) in [(Form::Text, text), (Form::Json, json)] {
        assert!(rt; reports(rt.alloc(), &mut io::repeat(0), form, REFUSED, report)?);
    }
    Ok(())
}

// The next byte after this state, and the next state.
fn next_byte(state: u32) -> (u32, u8) {
    let next = state.wrapping_mul(1_103_515_245).wrapping_add(12_345);
    let [_, byte, _, _] = next.to_be_bytes();
    (next, byte)
}

// Appends a record of 32 bytes to the log, and returns the next state.
fn add_noise(log: &mut Vec<u8>, kind: u8, mut state: u32) -> Result<u32, AllocError> {
    let mut body = [0; 32];
    for place in &mut body {
        let (next, byte) = next_byte(state);
        state = next;
        *place = byte;
    }
    add_record(log, kind, &body)?;
    Ok(state)
}

// Pseudo-random bytes in the records of a connection, alternately sent and received.
#[test]
fn judges_2000_logs_of_noise_as_the_plain_evaluators_do(rt: HostRuntime) -> Result<(), Fail> {
    let mut state = 1;
    for number in 0..2_000 {
        let mut log = log_of(rt.alloc(), CLIENT, &CONNECTED)?;
        for kind in [2, 3, 2, 3, 2, 3, 2, 3] {
            state = add_noise(&mut log, kind, state)?;
        }
        assert!(rt; are_faults_alike(rt.alloc(), &log)?, "log {number}");
    }
    Ok(())
}

// The log in which a PUBLISH of QoS 1 is sent under each Packet Identifier.
fn full_log(alloc: Global) -> Result<Vec<u8>, AllocError> {
    let mut log = log_of(alloc, CLIENT, &CONNECTED)?;
    for identifier in 1..=u16::MAX {
        let [high, low] = identifier.to_be_bytes();
        add_record(&mut log, 2, &[0x32, 7, 0, 1, b'a', high, low, 0, b'x'])?;
    }
    Ok(log)
}

#[test]
fn keeps_65535_identifiers_in_flight(rt: HostRuntime) -> Result<(), Fail> {
    let log = full_log(rt.alloc())?;
    assert!(rt; weight_of(rt.alloc(), &log).is_some_and(|weight| weight <= 524_280));
    assert!(rt; is_reported(rt.alloc(), &log, PASSED, "pass 65538 events\n")?);
    Ok(())
}

#[test]
fn finds_no_identifier_for_one_message_more(rt: HostRuntime) -> Result<(), Fail> {
    let mut log = full_log(rt.alloc())?;
    add_record(&mut log, 2, PUBLISH_ONCE)?;
    let report = "fault 65539 S01 MQTT-2.2.1-3 decided 65539 record 65539 offset -\n\
        fault 65539 S07 MQTT-4.9.0-2 decided 65539 record 65539 offset -\nfail 2 faults 65539 events\n";
    assert!(rt; is_reported(rt.alloc(), &log, FAULTY, report)?);
    Ok(())
}
