//! Logs that are judged from a reader, in turns of several sizes, and readers and writers that
//! fail.
use mq_harness::Part::{Close, Open, Recv, Rest, Sent};
use mq_harness::{
    CLIENT, CONNACK, CONNECT, Failing, HEADER, PUBACK, PUBLISH_ONCE, PUBLISH_UNIDENTIFIED, Pieces,
    log_of,
};
use mq_judge::{Choice, Form, Outcome, RunFault, run};
use mq_log::Refusal;
use std::alloc::{AllocError, Global};
use std::process::Abort;

// The result for what a reader gives, and whether this is written.
fn ran(alloc: Global, mut reader: Pieces<'_>, text: &str) -> (Result<Outcome, RunFault>, bool) {
    let mut written = Vec::new(alloc);
    let answer = run(alloc, &mut reader, &mut written, Form::Text, Choice::Usual);
    (answer, written.as_slice() == text.as_bytes())
}

// Asserts the result for a log and what is written, for each size of a turn.
fn assert_runs(
    rt: &(impl Abort + AllocGlobal),
    log: &[u8],
    answer: Result<Outcome, RunFault>,
    text: &str,
) {
    for size in &[1, 7, 8192] {
        let reader = Pieces::interrupted(log, *size, false);
        assert_eq!(rt;
            ran(rt.alloc(), reader, text),
            (answer, true),
            "in turns of {size}"
        );
    }
}

#[test]
fn passes_a_header_alone(rt: HostRuntime) {
    assert_runs(&rt, HEADER, Ok(Outcome::Pass), "pass 0 events\n");
}

#[test]
fn refuses_a_log_that_is_cut_short(rt: HostRuntime) {
    let cut = RunFault::Refused(Refusal::Cut(7));
    assert_runs(&rt, &HEADER[..7], Err(cut), "");
}

#[test]
fn reports_an_identifier_of_0(rt: HostRuntime) -> Result<(), AllocError> {
    let parts = [
        Open,
        Sent(CONNECT),
        Recv(CONNACK),
        Sent(PUBLISH_UNIDENTIFIED),
    ];
    let log = log_of(rt.alloc(), CLIENT, &parts)?;
    let text = "fault 4 W09 sec-2.2.1 decided 4 record 4 offset 5\nfail 1 faults 4 events\n";
    assert_runs(&rt, log.as_slice(), Ok(Outcome::Fail), text);
    Ok(())
}

#[test]
fn reports_an_identifier_that_is_in_use(rt: HostRuntime) -> Result<(), AllocError> {
    let parts = [
        Open,
        Sent(CONNECT),
        Recv(CONNACK),
        Sent(PUBLISH_ONCE),
        Sent(PUBLISH_ONCE),
        Recv(PUBACK),
    ];
    let log = log_of(rt.alloc(), CLIENT, &parts)?;
    let text = "fault 5 S01 MQTT-2.2.1-3 decided 5 record 5 offset -\nfail 1 faults 6 events\n";
    assert_runs(&rt, log.as_slice(), Ok(Outcome::Fail), text);
    Ok(())
}

#[test]
fn refuses_where_the_reader_fails(rt: HostRuntime) -> Result<(), AllocError> {
    let parts = [
        Open,
        Sent(CONNECT),
        Recv(CONNACK),
        Sent(PUBLISH_ONCE),
        Recv(PUBACK),
        Rest,
        Close,
    ];
    let log = log_of(rt.alloc(), CLIENT, &parts)?;
    assert_unread(&rt, log.as_slice());
    Ok(())
}

// Asserts that nothing is written where the reader of a log fails, after any number of bytes.
fn assert_unread(rt: &(impl Abort + AllocGlobal), log: &[u8]) {
    for count in 0..log.len() + 1 {
        let reader = Pieces::interrupted(&log[..count], 5, true);
        let refusal = Refusal::Read(count as u64);
        assert_eq!(rt;
            ran(rt.alloc(), reader, ""),
            (Err(RunFault::Refused(refusal)), true)
        );
    }
}

// A CONNACK that allows packets of 10 bytes and no Topic Alias, and a PUBLISH of 11 bytes that has
// one.
const NARROW_CONNACK: &[u8] = b"\x20\x08\x00\x00\x05\x27\x00\x00\x00\x0a";

const WIDE_PUBLISH: &[u8] = b"\x30\x09\x00\x01a\x03\x23\x00\x01xy";

const TEXT: &[u8] = b"fault 4 C14 MQTT-3.2.2-15 decided 4 record 4 offset -\n\
    fault 4 C15 MQTT-3.2.2-17 decided 4 record 4 offset -\nfail 2 faults 4 events\n";

const JSON: &[u8] = b"{\"events\":4,\"faults\":[\
    {\"citation\":\"MQTT-3.2.2-15\",\"code\":\"C14\",\"decided\":4,\"offset\":null,\"position\":4,\"record\":4},\
    {\"citation\":\"MQTT-3.2.2-17\",\"code\":\"C15\",\"decided\":4,\"offset\":null,\"position\":4,\"record\":4}\
    ],\"verdict\":\"fail\"}\n";

// Whether a run whose writer fails after this part of the report writes that and no more.
fn is_stopped(alloc: Global, log: &[u8], form: Form, part: &[u8]) -> bool {
    let mut writer = Failing::after(alloc, part.len(), None);
    run(alloc, &mut &log[..], &mut writer, form, Choice::Usual) == Err(RunFault::Write)
        && writer.taken.as_slice() == part
}

#[test]
fn stops_where_the_writer_fails(rt: HostRuntime) -> Result<(), AllocError> {
    let parts = [
        Open,
        Sent(CONNECT),
        Recv(NARROW_CONNACK),
        Sent(WIDE_PUBLISH),
    ];
    let log = log_of(rt.alloc(), CLIENT, &parts)?;
    assert_stops(&rt, log.as_slice(), Form::Text, TEXT);
    assert_stops(&rt, log.as_slice(), Form::Json, JSON);
    Ok(())
}

// Asserts that a run stops wherever its writer fails in this report.
fn assert_stops(rt: &(impl Abort + AllocGlobal), log: &[u8], form: Form, report: &[u8]) {
    for room in 0..report.len() {
        assert!(rt;
            is_stopped(rt.alloc(), log, form, &report[..room]),
            "{form:?} {room}"
        );
    }
}
