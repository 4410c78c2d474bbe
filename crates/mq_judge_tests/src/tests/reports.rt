//! Reports in each form, and writers that fail.
use mq_harness::Failing;
use mq_judge::{Form, RunFault, Verdict, write_json, write_refused, write_summary, write_text};
use mq_log::Refusal;
use mq_rules::{Fault, FaultKey, Faults, Role, Rule};
use std::alloc::Global;
use std::io::ErrorKind;

const S01_AT_5: (FaultKey, Fault) = (
    FaultKey {
        position: 5,
        rule: Rule::S01,
    },
    Fault {
        decided: 5,
        record_no: 5,
        offset: None,
    },
);

const W09_AT_5: (FaultKey, Fault) = (
    FaultKey {
        position: 5,
        rule: Rule::W09,
    },
    Fault {
        decided: 5,
        record_no: 13,
        offset: Some(5),
    },
);

const W03_AT_4: (FaultKey, Fault) = (
    FaultKey {
        position: 4,
        rule: Rule::W03,
    },
    Fault {
        decided: 4,
        record_no: 4,
        offset: Some(1),
    },
);

const W03_AT_7: (FaultKey, Fault) = (
    FaultKey {
        position: 7,
        rule: Rule::W03,
    },
    Fault {
        decided: 7,
        record_no: 9,
        offset: Some(3),
    },
);

const E1R_AT_4: (FaultKey, Fault) = (
    FaultKey {
        position: 4,
        rule: Rule::E1R,
    },
    Fault {
        decided: 5,
        record_no: 4,
        offset: None,
    },
);

const THREE_FAULTS: &str = "fault 4 W03 MQTT-1.5.5-1 decided 4 record 4 offset 1\n\
    fault 5 W09 sec-2.2.1 decided 5 record 13 offset 5\n\
    fault 5 S01 MQTT-2.2.1-3 decided 5 record 5 offset -\n\
    fail 3 faults 6 events\n";

type Found = (FaultKey, Fault);

// A verdict with these faults.
fn verdict_of(alloc: Global, events: u32, found: &[Found]) -> Option<Verdict> {
    let mut faults = Faults::new(alloc);
    for (key, fault) in found {
        faults.add(*key, *fault).ok()?;
    }
    Some(Verdict { events, faults })
}

// How writing the text on these faults in six events ends, and whether it is this; `None` without
// memory for them.
fn text_on(
    alloc: Global,
    role: Role,
    found: &[Found],
    text: &str,
) -> Option<(Result<(), RunFault>, bool)> {
    let verdict = verdict_of(alloc, 6, found)?;
    let mut written = Vec::new(alloc);
    let answer = write_text(&verdict, role, &mut written);
    Some((answer, written.as_slice() == text.as_bytes()))
}

#[test]
fn writes_a_line_for_each_fault_and_a_last_line(rt: HostRuntime) {
    let found = [S01_AT_5, W09_AT_5, W03_AT_4];
    for (role, found, text) in &[
        (Role::Client, &found[..0], "pass 6 events\n"),
        (
            Role::Client,
            &found[..1],
            "fault 5 S01 MQTT-2.2.1-3 decided 5 record 5 offset -\nfail 1 faults 6 events\n",
        ),
        (
            Role::Server,
            &found[..1],
            "fault 5 S01 MQTT-2.2.1-4 decided 5 record 5 offset -\nfail 1 faults 6 events\n",
        ),
        (Role::Client, &found[..], THREE_FAULTS),
    ] {
        assert_eq!(rt;
            text_on(rt.alloc(), *role, found, text),
            Some((Ok(()), true)),
            "{text}"
        );
    }
}

// How writing a refusal in this form ends, and whether it is this.
fn refusal_in(
    alloc: Global,
    refusal: &Refusal,
    form: Form,
    text: &str,
) -> (Result<(), RunFault>, bool) {
    let mut written = Vec::new(alloc);
    let answer = write_refused(alloc, refusal, form, &mut written);
    (answer, written.as_slice() == text.as_bytes())
}

static REFUSALS: [(Refusal, &str); 5] = [
    (Refusal::Cut(7), "refused 10 Cut at 7\n"),
    (Refusal::Nested(13), "refused 7 Nested at 13\n"),
    (Refusal::OtherVersion(31), "refused 12 OtherVersion at 31\n"),
    (
        Refusal::TooManyEarly(28_702),
        "refused 13 TooManyEarly at 28702\n",
    ),
    (
        Refusal::ReleaseUnrecorded(u64::MAX),
        "refused 9 ReleaseUnrecorded at 18446744073709551615\n",
    ),
];

#[test]
fn writes_a_refusal(rt: HostRuntime) {
    for (refusal, text) in &REFUSALS {
        assert_eq!(rt;
            refusal_in(rt.alloc(), refusal, Form::Text, text),
            (Ok(()), true),
            "{text}"
        );
    }
}

// How writing JSON on these faults in so many events ends, and whether it is this; `None` without
// memory for them.
fn json_on(
    alloc: Global,
    events: u32,
    found: &[Found],
    text: &str,
) -> Option<(Result<(), RunFault>, bool)> {
    let verdict = verdict_of(alloc, events, found)?;
    let mut written = Vec::new(alloc);
    let answer = write_json(alloc, &verdict, Role::Client, &mut written);
    Some((answer, written.as_slice() == text.as_bytes()))
}

#[test]
fn writes_json(rt: HostRuntime) {
    let one =
        "{\"events\":5,\"faults\":[{\"citation\":\"MQTT-4.3.2-4\",\"code\":\"E1R\",\"decided\":5,\"offset\":null,\"position\":4,\"record\":4}],\"verdict\":\"fail\"}\n";
    assert_eq!(rt;
        json_on(rt.alloc(), 5, &[E1R_AT_4], one),
        Some((Ok(()), true))
    );
    let none = "{\"events\":0,\"faults\":[],\"verdict\":\"pass\"}\n";
    assert_eq!(rt; json_on(rt.alloc(), 0, &[], none), Some((Ok(()), true)));
}

// How writing a summary of these faults in nine events ends, and whether it is this; `None` without
// memory for them.
fn summary_on(alloc: Global, found: &[Found], text: &str) -> Option<(Result<(), RunFault>, bool)> {
    let verdict = verdict_of(alloc, 9, found)?;
    let mut written = Vec::new(alloc);
    let answer = write_summary(&verdict, Role::Client, &mut written);
    Some((answer, written.as_slice() == text.as_bytes()))
}

#[test]
fn writes_a_line_for_each_statement_that_has_faults(rt: HostRuntime) {
    let found = [W09_AT_5, S01_AT_5, W03_AT_4, W03_AT_7];
    let text = "W03 MQTT-1.5.5-1 faults 2 first 4 record 4\n\
        W09 sec-2.2.1 faults 1 first 5 record 13\n\
        S01 MQTT-2.2.1-3 faults 1 first 5 record 5\n\
        fail 4 faults 9 events\n";
    assert_eq!(rt; summary_on(rt.alloc(), &found, text), Some((Ok(()), true)));
}

#[test]
fn writes_a_refusal_as_json(rt: HostRuntime) {
    let text = "{\"at\":7,\"name\":\"Cut\",\"refused\":10}\n";
    assert_eq!(rt;
        refusal_in(rt.alloc(), &Refusal::Cut(7), Form::Json, text),
        (Ok(()), true)
    );
}

// How writing JSON on no fault ends, if the writer fails after this part of it, and whether that is
// written.
fn json_up_to(alloc: Global, part: &[u8]) -> (Result<(), RunFault>, bool) {
    let verdict = Verdict {
        events: 6,
        faults: Faults::new(alloc),
    };
    let mut writer = Failing::after(alloc, part.len(), None);
    let answer = write_json(alloc, &verdict, Role::Client, &mut writer);
    (answer, writer.taken.as_slice() == part)
}

#[test]
fn stops_where_the_writer_fails_in_json(rt: HostRuntime) {
    let text = b"{\"events\":6,\"faults\":[],\"verdict\":\"pass\"}\n";
    assert_eq!(rt;
        json_up_to(rt.alloc(), &text[..20]),
        (Err(RunFault::Write), true)
    );
}

// Whether a writer with this much room, that fails with this error, takes as much of the report on
// three faults, and a write fails if that isn't all of it.
fn is_stopped(alloc: Global, verdict: &Verdict, error: Option<ErrorKind>, room: usize) -> bool {
    let answer = if room == THREE_FAULTS.len() {
        Ok(())
    } else {
        Err(RunFault::Write)
    };
    let mut writer = Failing::after(alloc, room, error);
    write_text(verdict, Role::Client, &mut writer) == answer
        && THREE_FAULTS.as_bytes().get(..room) == Some(writer.taken.as_slice())
}

// The least room with which that isn't so, if there is one.
fn first_unstopped(alloc: Global, verdict: &Verdict, error: Option<ErrorKind>) -> Option<usize> {
    for room in 0..THREE_FAULTS.len() + 1 {
        if !is_stopped(alloc, verdict, error, room) {
            return Some(room);
        }
    }
    None
}

// The same for the verdict on the three faults; 0 without memory for them.
fn first_room(alloc: Global, error: Option<ErrorKind>) -> Option<usize> {
    match verdict_of(alloc, 6, &[W03_AT_4, W09_AT_5, S01_AT_5]) {
        Some(verdict) => first_unstopped(alloc, &verdict, error),
        None => Some(0),
    }
}

#[test]
fn stops_where_the_writer_fails(rt: HostRuntime) {
    for error in &[None, Some(ErrorKind::Interrupted), Some(ErrorKind::Other)] {
        assert_eq!(rt; first_room(rt.alloc(), *error), None, "{error:?}");
    }
}
