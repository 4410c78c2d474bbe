//! Reports that say what each fault conflicts with, written out.
use mq_report::{Form, Verdict, write_reasoned_report};
use mq_rules::{Evidence, Fault, FaultKey, Faults, Numbers, Role, Rule};
use std::process::Abort;

const E1A_AT_4: (FaultKey, Fault) = (
    FaultKey {
        position: 4,
        rule: Rule::E1A,
    },
    Fault {
        decided: 4,
        record_no: 3,
        offset: None,
    },
);

const S01_AT_5: (FaultKey, Fault) = (
    FaultKey {
        position: 5,
        rule: Rule::S01,
    },
    Fault {
        decided: 6,
        record_no: 4,
        offset: None,
    },
);

const S07_AT_30: (FaultKey, Fault) = (
    FaultKey {
        position: 30,
        rule: Rule::S07,
    },
    Fault {
        decided: 30,
        record_no: 28,
        offset: None,
    },
);

const FOUND: [(FaultKey, Fault); 3] = [E1A_AT_4, S01_AT_5, S07_AT_30];

const NO_EVENT: Evidence = Evidence {
    because: None,
    numbers: Numbers::Nothing,
};

const EVENT: Evidence = Evidence {
    because: Some(3),
    numbers: Numbers::Nothing,
};

const EVENT_AND_NUMBERS: Evidence = Evidence {
    because: Some(2),
    numbers: Numbers::Two(11, 10),
};

const NUMBER: Evidence = Evidence {
    because: None,
    numbers: Numbers::One(18_446_744_073_709_551_615),
};

// The report of a server with these faults and reasons, as text.
fn is_reported_as(
    rt: &(impl Abort + AllocGlobal),
    found: &[(FaultKey, Fault)],
    reasons: &[Evidence],
    form: Form,
    text: &str,
) -> bool {
    let mut faults = Faults::new(rt.alloc());
    for (key, fault) in found {
        if faults.add(*key, *fault).is_err() {
            return false;
        }
    }
    let verdict = Verdict { events: 45, faults };
    let mut report = Vec::new(rt.alloc());
    let role = Role::Server;
    let answer = write_reasoned_report(rt.alloc(), &verdict, role, reasons, form, &mut report);
    answer.is_ok() && report.as_slice() == text.as_bytes()
}

#[test]
fn text_says_it_after_each_fault(rt: HostRuntime) {
    let reasons = [NO_EVENT, EVENT, EVENT_AND_NUMBERS];
    let text = "fault 4 E1A MQTT-2.2.1-5 decided 4 record 3 offset -\n\
        because 4 E1A event -\n\
        fault 5 S01 MQTT-2.2.1-4 decided 6 record 4 offset -\n\
        because 5 S01 event 3\n\
        fault 30 S07 MQTT-4.9.0-2 decided 30 record 28 offset -\n\
        because 30 S07 event 2 numbers 11 10\n\
        fail 3 faults 45 events\n";
    assert!(rt; is_reported_as(&rt, &FOUND, &reasons, Form::Text, text));
}

#[test]
fn json_says_it_in_each_fault(rt: HostRuntime) {
    let reasons = [NO_EVENT, EVENT, EVENT_AND_NUMBERS];
    let text = "{\"events\":45,\"faults\":[\
        {\"because\":null,\"citation\":\"MQTT-2.2.1-5\",\"code\":\"E1A\",\"decided\":4,\
        \"numbers\":[],\"offset\":null,\"position\":4,\"record\":3},\
        {\"because\":3,\"citation\":\"MQTT-2.2.1-4\",\"code\":\"S01\",\"decided\":6,\
        \"numbers\":[],\"offset\":null,\"position\":5,\"record\":4},\
        {\"because\":2,\"citation\":\"MQTT-4.9.0-2\",\"code\":\"S07\",\"decided\":30,\
        \"numbers\":[11,10],\"offset\":null,\"position\":30,\"record\":28}],\
        \"verdict\":\"fail\"}\n";
    assert!(rt; is_reported_as(&rt, &FOUND, &reasons, Form::Json, text));
}

#[test]
fn summary_says_nothing_of_it(rt: HostRuntime) {
    let reasons = [NO_EVENT, EVENT, EVENT_AND_NUMBERS];
    let text = "S01 MQTT-2.2.1-4 faults 1 first 5 record 4\n\
        S07 MQTT-4.9.0-2 faults 1 first 30 record 28\n\
        E1A MQTT-2.2.1-5 faults 1 first 4 record 3\n\
        fail 3 faults 45 events\n";
    assert!(rt; is_reported_as(&rt, &FOUND, &reasons, Form::Summary, text));
}

#[test]
fn a_fault_beyond_the_reasons_has_none(rt: HostRuntime) {
    let text = "fault 4 E1A MQTT-2.2.1-5 decided 4 record 3 offset -\n\
        because 4 E1A event - numbers 18446744073709551615\n\
        fault 5 S01 MQTT-2.2.1-4 decided 6 record 4 offset -\n\
        because 5 S01 event -\n\
        fail 2 faults 45 events\n";
    let json = "{\"events\":45,\"faults\":[\
        {\"because\":null,\"citation\":\"MQTT-2.2.1-5\",\"code\":\"E1A\",\"decided\":4,\
        \"numbers\":[18446744073709551615],\"offset\":null,\"position\":4,\"record\":3},\
        {\"because\":null,\"citation\":\"MQTT-2.2.1-4\",\"code\":\"S01\",\"decided\":6,\
        \"numbers\":[],\"offset\":null,\"position\":5,\"record\":4}],\
        \"verdict\":\"fail\"}\n";
    let found = [E1A_AT_4, S01_AT_5];
    assert!(rt; is_reported_as(&rt, &found, &[NUMBER], Form::Text, text));
    assert!(rt; is_reported_as(&rt, &found, &[NUMBER], Form::Json, json));
}

#[test]
fn a_pass_is_as_without_reasons(rt: HostRuntime) {
    let words = "pass 45 events\n";
    let json = "{\"events\":45,\"faults\":[],\"verdict\":\"pass\"}\n";
    assert!(rt; is_reported_as(&rt, &[], &[], Form::Text, words));
    assert!(rt; is_reported_as(&rt, &[], &[EVENT], Form::Text, words));
    assert!(rt; is_reported_as(&rt, &[], &[], Form::Summary, words));
    assert!(rt; is_reported_as(&rt, &[], &[EVENT], Form::Json, json));
}
