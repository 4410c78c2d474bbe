//! `check --why`.
use mq_host::{FAULTY, Failure, PASSED, REFUSED};
use mq_judge::{Choice, Form};
use mq_tasks::{Lapse, Wanted, inquire_twice};
use mq_tasks_harness::{CONNECTED, NESTED, Narrow, Trickle, WHOLE_LOG, add_record};
use std::alloc::{AllocError, Global};
use std::fmt::Write as _;
use std::io::Cursor;
use std::test::Fail;

// A server announces a Receive Maximum of 1. A client publishes, and publishes again under the same
// Packet Identifier before the PUBACK comes.
const IN_USE: &[u8] = b"MQTR\x01\x00\x01\x00\
    \x01\x00\x00\x00\x00\
    \x02\x00\x00\x00\x0f\x10\x0d\x00\x04MQTT\x05\x02\x00\x3c\x00\x00\x00\
    \x03\x00\x00\x00\x08\x20\x06\x00\x00\x03\x21\x00\x01\
    \x02\x00\x00\x00\x09\x32\x07\x00\x01a\x00\x01\x00x\
    \x02\x00\x00\x00\x09\x32\x07\x00\x01a\x00\x01\x00x";

// The same, but the second PUBLISH has another identifier.
const TOO_MANY: &[u8] = b"MQTR\x01\x00\x01\x00\
    \x01\x00\x00\x00\x00\
    \x02\x00\x00\x00\x0f\x10\x0d\x00\x04MQTT\x05\x02\x00\x3c\x00\x00\x00\
    \x03\x00\x00\x00\x08\x20\x06\x00\x00\x03\x21\x00\x01\
    \x02\x00\x00\x00\x09\x32\x07\x00\x01a\x00\x01\x00x\
    \x02\x00\x00\x00\x09\x32\x07\x00\x01a\x00\x02\x00x";

// A client doesn't answer a PUBLISH before its end rests, and then sends a SUBACK, which it may not
// send, under identifier 0.
const THREE_FAULTS: &[u8] = b"MQTR\x01\x00\x01\x00\
    \x01\x00\x00\x00\x00\
    \x02\x00\x00\x00\x0f\x10\x0d\x00\x04MQTT\x05\x02\x00\x3c\x00\x00\x00\
    \x03\x00\x00\x00\x05\x20\x03\x00\x00\x00\
    \x03\x00\x00\x00\x09\x32\x07\x00\x01a\x00\x01\x00x\
    \x02\x00\x00\x00\x02\xc0\x00\
    \x03\x00\x00\x00\x02\xd0\x00\
    \x05\x00\x00\x00\x00\
    \x02\x00\x00\x00\x05\x90\x03\x00\x00\x00\
    \x04\x00\x00\x00\x00";

const IN_USE_LINES: &str = "fault 5 S01 MQTT-2.2.1-3 decided 5 record 5 offset -\n\
    because 5 S01 event 4\n\
    fault 5 S07 MQTT-4.9.0-2 decided 5 record 5 offset -\n\
    because 5 S07 event 3 numbers 2 1\n\
    fail 2 faults 5 events\n";

const IN_USE_JSON: &str = "{\"events\":5,\"faults\":[\
    {\"because\":4,\"citation\":\"MQTT-2.2.1-3\",\"code\":\"S01\",\"decided\":5,\
    \"numbers\":[],\"offset\":null,\"position\":5,\"record\":5},\
    {\"because\":3,\"citation\":\"MQTT-4.9.0-2\",\"code\":\"S07\",\"decided\":5,\
    \"numbers\":[2,1],\"offset\":null,\"position\":5,\"record\":5}],\"verdict\":\"fail\"}\n";

const IN_USE_SUMMARY: &str = "S01 MQTT-2.2.1-3 faults 1 first 5 record 5\n\
    S07 MQTT-4.9.0-2 faults 1 first 5 record 5\n\
    fail 2 faults 5 events\n";

const THREE_LINES: &str = "fault 4 E1R MQTT-4.3.2-4 decided 7 record 4 offset -\n\
    because 4 E1R event 7\n\
    fault 8 W09 sec-2.2.1 decided 8 record 8 offset 2\n\
    because 8 W09 event -\n\
    fault 8 C01 sec-2.1.2 decided 8 record 8 offset -\n\
    because 8 C01 event -\n\
    fail 3 faults 9 events\n";

// A report in this form, by the statements that are judged without a choice.
fn in_form(form: Form) -> Wanted {
    Wanted {
        form,
        choice: Choice::Usual,
    }
}

// Whether the log that is judged and the one that is read again give this, and write this text.
fn gives(
    alloc: Global,
    form: Form,
    logs: [&[u8]; 2],
    wanted: Result<u8, Lapse>,
    text: &str,
) -> bool {
    let [judged, again] = logs;
    let mut output = Vec::new(alloc);
    let given = inquire_twice(
        alloc,
        in_form(form),
        true,
        &mut Trickle::of(judged, None),
        &mut Trickle::of(again, None),
        &mut output,
    );
    given == wanted && output.as_slice() == text.as_bytes()
}

#[test]
fn says_what_each_fault_conflicts_with(rt: HostRuntime) {
    for (form, log, text) in [
        (Form::Text, IN_USE, IN_USE_LINES),
        (Form::Json, IN_USE, IN_USE_JSON),
        (Form::Summary, IN_USE, IN_USE_SUMMARY),
        (Form::Text, THREE_FAULTS, THREE_LINES),
    ] {
        assert!(rt;
            gives(rt.alloc(), form, [log, log], Ok(FAULTY), text),
            "{text}"
        );
    }
}

// The second reader would fail at once.
#[test]
fn reads_a_log_without_faults_once(rt: HostRuntime) {
    for (form, text) in [
        (Form::Text, "pass 7 events\n"),
        (
            Form::Json,
            "{\"events\":7,\"faults\":[],\"verdict\":\"pass\"}\n",
        ),
        (Form::Summary, "pass 7 events\n"),
    ] {
        let mut output = Vec::new(rt.alloc());
        let given = inquire_twice(
            rt.alloc(),
            in_form(form),
            true,
            &mut Trickle::of(WHOLE_LOG, None),
            &mut Trickle::of(WHOLE_LOG, Some(0)),
            &mut output,
        );
        assert_eq!(rt; given, Ok(PASSED));
        assert!(rt; output.as_slice() == text.as_bytes());
    }
}

#[test]
fn says_nothing_of_a_refused_log(rt: HostRuntime) {
    for (log, line) in [
        (&NESTED[..7], "refused 10 Cut at 7\n"),
        (NESTED, "refused 7 Nested at 13\n"),
    ] {
        assert!(rt;
            gives(rt.alloc(), Form::Text, [log, log], Ok(REFUSED), line),
            "{line}"
        );
    }
}

// Nothing is written of a log that changed: another event's number may be wrong.
#[test]
fn says_that_the_log_changed(rt: HostRuntime) {
    for (judged, again) in [
        (IN_USE, TOO_MANY),
        (TOO_MANY, IN_USE),
        (IN_USE, CONNECTED),
        (THREE_FAULTS, WHOLE_LOG),
        (IN_USE, &IN_USE[..40]),
        (IN_USE, NESTED),
        (IN_USE, &IN_USE[..0]),
    ] {
        let logs = [judged, again];
        assert!(rt;
            gives(rt.alloc(), Form::Text, logs, Err(Lapse::Changed), ""),
            "{judged:?}"
        );
    }
}

// The same faults, but one event more, another tested end, and no releases.
#[test]
fn says_that_what_has_no_fault_changed(rt: HostRuntime) -> Result<(), Fail> {
    let mut longer = Vec::new(rt.alloc());
    longer.extend_from_slice(IN_USE)?;
    add_record(&mut longer, 4, b"")?;
    let mut plain = Vec::new(rt.alloc());
    plain.extend_from_slice(b"MQTR\x01\x00\x00\x00")?;
    plain.extend_from_slice(&IN_USE[8..])?;
    for again in [longer.as_slice(), plain.as_slice()] {
        let logs = [IN_USE, again];
        assert!(rt;
            gives(rt.alloc(), Form::Text, logs, Err(Lapse::Changed), ""),
            "{again:?}"
        );
    }
    Ok(())
}

#[test]
fn reports_a_failed_first_or_second_reading(rt: HostRuntime) {
    for (first, second) in [(Some(20), None), (None, Some(0)), (None, Some(60))] {
        let mut output = Vec::new(rt.alloc());
        let given = inquire_twice(
            rt.alloc(),
            in_form(Form::Text),
            true,
            &mut Trickle::of(IN_USE, first),
            &mut Trickle::of(IN_USE, second),
            &mut output,
        );
        assert_eq!(rt; given, Err(Lapse::Failed(Failure::Read)));
        assert!(rt; output.is_empty());
    }
}

#[test]
fn reports_a_failed_write_of_reasons(rt: HostRuntime) {
    for (log, room, stays) in [
        (IN_USE, 0, false),
        (IN_USE, 60, false),
        (IN_USE, 10_000, true),
        (WHOLE_LOG, 5, false),
        (WHOLE_LOG, 100, true),
        (&IN_USE[..7], 10, false),
    ] {
        let given = inquire_twice(
            rt.alloc(),
            in_form(Form::Text),
            true,
            &mut Trickle::of(log, None),
            &mut Trickle::of(log, None),
            &mut Narrow { room, stays },
        );
        assert_eq!(rt; given, Err(Lapse::Failed(Failure::Write)), "{room} bytes");
    }
}

// With each allocation failing in turn, the whole report is written, or memory ran out, and nothing
// is written.
#[test]
fn reports_reasons_without_memory(rt: HostRuntime) {
    let mut output = Cursor::new([0; 1024]);
    let given = inquire_twice(
        rt.alloc(),
        in_form(Form::Text),
        true,
        &mut &IN_USE[..],
        &mut &IN_USE[..],
        &mut output,
    );
    let written = output.position() as usize;
    if given == Ok(FAULTY) {
        assert_eq!(rt; written, IN_USE_LINES.len());
        assert!(rt; output.get_ref().starts_with(IN_USE_LINES.as_bytes()));
    } else {
        assert_eq!(rt; given, Err(Lapse::Failed(Failure::Memory)));
        assert_eq!(rt; written, 0);
    }
}

// A log of 3,000 packets whose Packet Identifier is 0.
fn log_of_faults(alloc: Global) -> Result<Vec<u8>, AllocError> {
    let mut log = Vec::new(alloc);
    log.extend_from_slice(CONNECTED)?;
    for _packet in 0..3_000 {
        add_record(&mut log, 2, b"\x32\x07\x00\x01a\x00\x00\x00x")?;
    }
    Ok(log)
}

// What is said of it.
fn lines_of_faults(alloc: Global) -> Result<String, Fail> {
    let mut text = String::new(alloc);
    for position in 4..3_004_u32 {
        write!(
            text,
            "fault {position} W09 sec-2.2.1 decided {position} record {position} offset 5\n\
            because {position} W09 event -\n"
        )?;
    }
    text.push_str("fail 3000 faults 3003 events\n")?;
    Ok(text)
}

#[test]
fn explains_3000_faults(rt: HostRuntime) -> Result<(), Fail> {
    let log = log_of_faults(rt.alloc())?;
    let text = lines_of_faults(rt.alloc())?;
    let logs = [log.as_slice(), log.as_slice()];
    assert!(rt; gives(rt.alloc(), Form::Text, logs, Ok(FAULTY), text.as_str()));
    Ok(())
}
