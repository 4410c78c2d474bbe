//! Reports that say how often each statement was put to the test, and what wasn't judged, written
//! out.
use mq_log::{Direction, Place3};
use mq_report::{Begun, Covered, Form, Gap, Verdict, write_covered_report};
use mq_rules::{Fault, FaultKey, Faults, Role, Rule};
use std::process::Abort;

const TESTED: [Covered; 3] = [
    Covered {
        rule: Rule::W01,
        places: 11,
    },
    Covered {
        rule: Rule::S01,
        places: 7,
    },
    Covered {
        rule: Rule::S02,
        places: 0,
    },
];

fn place(position: u32, record_no: u32) -> Place3 {
    Place3 {
        position,
        record_no,
        moment: 7,
    }
}

fn begun(first: u8, bytes: usize) -> Begun {
    Begun { first, bytes }
}

// One of each kind.
fn unjudged() -> [Gap; 9] {
    [
        Gap::Lost(Direction::Sent, place(14, 9)),
        Gap::Lost(Direction::Recv, place(15, 10)),
        Gap::UnknownSession(place(22, 21)),
        Gap::Unfinished(Direction::Sent, begun(0x3D, 12), Some(place(24, 23))),
        Gap::Unfinished(Direction::Recv, begun(0x0F, 1), None),
        Gap::UndecidedSession(place(30, 29)),
        Gap::Shared(place(12, 13)),
        Gap::NoRest,
        Gap::NoReleases,
    ]
}

const S07_AT_22: (FaultKey, Fault) = (
    FaultKey {
        position: 22,
        rule: Rule::S07,
    },
    Fault {
        decided: 22,
        record_no: 20,
        offset: None,
    },
);

// The report of a server with these faults, rows and gaps, as text.
fn is_reported_as(
    rt: &(impl Abort + AllocGlobal),
    events: u32,
    found: &[(FaultKey, Fault)],
    rows: &[Covered],
    gaps: &[Gap],
    form: Form,
    text: &str,
) -> bool {
    let mut faults = Faults::new(rt.alloc());
    for (key, fault) in found {
        if faults.add(*key, *fault).is_err() {
            return false;
        }
    }
    let verdict = Verdict { events, faults };
    let mut report = Vec::new(rt.alloc());
    let alloc = rt.alloc();
    let answer = write_covered_report(alloc, &verdict, Role::Server, rows, gaps, form, &mut report);
    answer.is_ok() && report.as_slice() == text.as_bytes()
}

#[test]
fn text_says_it_before_the_verdict(rt: HostRuntime) {
    let text = "fault 22 S07 MQTT-4.9.0-2 decided 22 record 20 offset -\n\
        tested W01 MQTT-2.1.3-1 places 11\n\
        tested S01 MQTT-2.2.1-4 places 7\n\
        tested S02 MQTT-4.3.2-2,MQTT-4.3.3-2 places 0\n\
        covered 2 of 3 statements\n\
        fail 1 faults 45 events\n";
    assert!(rt; is_reported_as(&rt, 45, &[S07_AT_22], &TESTED, &[], Form::Text, text));
}

#[test]
fn summary_says_it_before_the_verdict(rt: HostRuntime) {
    let text = "S07 MQTT-4.9.0-2 faults 1 first 22 record 20\n\
        tested W01 MQTT-2.1.3-1 places 11\n\
        tested S01 MQTT-2.2.1-4 places 7\n\
        tested S02 MQTT-4.3.2-2,MQTT-4.3.3-2 places 0\n\
        covered 2 of 3 statements\n\
        fail 1 faults 45 events\n";
    assert!(rt; is_reported_as(&rt, 45, &[S07_AT_22], &TESTED, &[], Form::Summary, text));
}

#[test]
fn json_says_it_first(rt: HostRuntime) {
    let text = "{\"coverage\":[\
        {\"citation\":\"MQTT-2.1.3-1\",\"code\":\"W01\",\"places\":11},\
        {\"citation\":\"MQTT-2.2.1-4\",\"code\":\"S01\",\"places\":7},\
        {\"citation\":\"MQTT-4.3.2-2,MQTT-4.3.3-2\",\"code\":\"S02\",\"places\":0}],\
        \"events\":45,\"faults\":[{\"citation\":\"MQTT-4.9.0-2\",\"code\":\"S07\",\
        \"decided\":22,\"offset\":null,\"position\":22,\"record\":20}],\"unjudged\":[],\"verdict\":\"fail\"}\n";
    assert!(rt; is_reported_as(&rt, 45, &[S07_AT_22], &TESTED, &[], Form::Json, text));
}

#[test]
fn words_say_what_was_not_judged(rt: HostRuntime) {
    let text = "covered 0 of 0 statements\n\
        unjudged sent lost event 14 record 9\n\
        unjudged received lost event 15 record 10\n\
        unjudged session unknown event 22 record 21\n\
        unjudged sent unfinished PUBLISH bytes 12 event 24 record 23\n\
        unjudged received unfinished Reserved bytes 1\n\
        unjudged session undecided event 30 record 29\n\
        unjudged B01 B02 shared event 12 record 13\n\
        unjudged answers no-rest\n\
        unjudged L1 L2 L3 no-releases\n\
        pass 45 events\n";
    for form in &[Form::Text, Form::Summary] {
        assert!(rt;
            is_reported_as(&rt, 45, &[], &[], &unjudged(), *form, text),
            "{form:?}"
        );
    }
}

#[test]
fn json_says_what_was_not_judged(rt: HostRuntime) {
    let text = "{\"coverage\":[],\"events\":45,\"faults\":[],\"unjudged\":[\
        {\"event\":14,\"record\":9,\"what\":\"sent\",\"why\":\"lost\"},\
        {\"event\":15,\"record\":10,\"what\":\"received\",\"why\":\"lost\"},\
        {\"event\":22,\"record\":21,\"what\":\"session\",\"why\":\"unknown\"},\
        {\"bytes\":12,\"event\":24,\"record\":23,\"type\":\"PUBLISH\",\"what\":\"sent\",\"why\":\"unfinished\"},\
        {\"bytes\":1,\"type\":\"Reserved\",\"what\":\"received\",\"why\":\"unfinished\"},\
        {\"event\":30,\"record\":29,\"what\":\"session\",\"why\":\"undecided\"},\
        {\"event\":12,\"record\":13,\"what\":\"B01 B02\",\"why\":\"shared\"},\
        {\"what\":\"answers\",\"why\":\"no-rest\"},\
        {\"what\":\"L1 L2 L3\",\"why\":\"no-releases\"}],\"verdict\":\"pass\"}\n";
    assert!(rt; is_reported_as(&rt, 45, &[], &[], &unjudged(), Form::Json, text));
}

#[test]
fn no_statement_is_none_of_none(rt: HostRuntime) {
    let words = "covered 0 of 0 statements\npass 7 events\n";
    let json =
        "{\"coverage\":[],\"events\":7,\"faults\":[],\"unjudged\":[],\"verdict\":\"pass\"}\n";
    for (form, text) in &[
        (Form::Text, words),
        (Form::Summary, words),
        (Form::Json, json),
    ] {
        assert!(rt;
            is_reported_as(&rt, 7, &[], &[], &[], *form, text),
            "{text}"
        );
    }
}
