//! What the judge answers and keeps for want of memory. `bench/refusing.py` runs these tests with
//! each allocation refused in turn; without it none is.
use super::plain::{are_same, plain_faults_in};
use super::statements::{log_of, outcome_of};
use mq_harness::Pieces;
use mq_judge::{Choice, Form, Judge, Options, RunFault, run};
use mq_log::Refusal;
use mq_rules::Faults;
use std::alloc::Global;
use std::io::Cursor;

type Row = (&'static str, &'static str, &'static str);

// Logs, each with its report as text and as JSON.
static ROWS: [Row; 9] = [
    (
        "client OPEN >CONNECT-KEPT <CONNACK >PUBLISH1:1 CLOSE OPEN >RECONNECT <CONNACK-RESUMED >RESEND1:1",
        "pass 9 events\n",
        "{\"events\":9,\"faults\":[],\"verdict\":\"pass\"}\n",
    ),
    (
        "client OPEN >CONNECT-KEPT <CONNACK >PUBLISH1:1 >RESEND1:1",
        "fault 5 S03 MQTT-4.4.0-1 decided 5 record 5 offset -\nfail 1 faults 5 events\n",
        "{\"events\":5,\"faults\":[{\"citation\":\"MQTT-4.4.0-1\",\"code\":\"S03\",\"decided\":5,\"offset\":null,\"position\":5,\"record\":5}],\"verdict\":\"fail\"}\n",
    ),
    (
        "client OPEN >CONNECT <CONNACK-SIZE-10 >3009000161032300017879",
        "fault 4 C14 MQTT-3.2.2-15 decided 4 record 4 offset -\nfault 4 C15 MQTT-3.2.2-17 decided 4 record 4 offset -\nfail 2 faults 4 events\n",
        "{\"events\":4,\"faults\":[{\"citation\":\"MQTT-3.2.2-15\",\"code\":\"C14\",\"decided\":4,\"offset\":null,\"position\":4,\"record\":4},{\"citation\":\"MQTT-3.2.2-17\",\"code\":\"C15\",\"decided\":4,\"offset\":null,\"position\":4,\"record\":4}],\"verdict\":\"fail\"}\n",
    ),
    (
        "client OPEN >CONNECT <CONNACK <PUBLISH2:1 RELEASE:1 <RESEND2:1 RELEASE:1",
        "fault 7 L2 MQTT-4.3.3-10 decided 7 record 7 offset -\nfail 1 faults 7 events\n",
        "{\"events\":7,\"faults\":[{\"citation\":\"MQTT-4.3.3-10\",\"code\":\"L2\",\"decided\":7,\"offset\":null,\"position\":7,\"record\":7}],\"verdict\":\"fail\"}\n",
    ),
    (
        "client OPEN >CONNECT <CONNACK <PUBLISH1:1 <PUBLISH1:2 >PUBACK:2 >PUBACK:1",
        "fault 6 E1O MQTT-4.6.0-2 decided 6 record 6 offset -\nfail 1 faults 7 events\n",
        "{\"events\":7,\"faults\":[{\"citation\":\"MQTT-4.6.0-2\",\"code\":\"E1O\",\"decided\":6,\"offset\":null,\"position\":6,\"record\":6}],\"verdict\":\"fail\"}\n",
    ),
    (
        "server OPEN <CONNECT-NAMED >CONNACK <820700010000016101 >PUBLISH1:1 >900400010001 >PUBLISH0-B",
        "fault 7 B01 MQTT-3.3.2-3 decided 7 record 7 offset -\nfail 1 faults 7 events\n",
        "{\"events\":7,\"faults\":[{\"citation\":\"MQTT-3.3.2-3\",\"code\":\"B01\",\"decided\":7,\"offset\":null,\"position\":7,\"record\":7}],\"verdict\":\"fail\"}\n",
    ),
    (
        "server OPEN <CONNECT-NAMED >CONNACK <820700010000016101 >PUBLISH1:1 >900400010087 >PUBLISH0",
        "fault 7 B01 MQTT-3.3.2-3 decided 7 record 7 offset -\nfail 1 faults 7 events\n",
        "{\"events\":7,\"faults\":[{\"citation\":\"MQTT-3.3.2-3\",\"code\":\"B01\",\"decided\":7,\"offset\":null,\"position\":7,\"record\":7}],\"verdict\":\"fail\"}\n",
    ),
    (
        "client OPEN >CONNECT-KEPT <CONNACK >PUBLISH1:1 CLOSE OPEN >RECONNECT >PUBLISH1:1 <CONNACK",
        "pass 9 events\n",
        "{\"events\":9,\"faults\":[],\"verdict\":\"pass\"}\n",
    ),
    (
        "client OPEN >CONNECT-KEPT <CONNACK >PUBLISH1:1 CLOSE OPEN >RECONNECT >PUBLISH1:1 <CONNACK-RESUMED",
        "fault 8 S01 MQTT-2.2.1-3 decided 9 record 8 offset -\nfail 1 faults 9 events\n",
        "{\"events\":9,\"faults\":[{\"citation\":\"MQTT-2.2.1-3\",\"code\":\"S01\",\"decided\":9,\"offset\":null,\"position\":8,\"record\":8}],\"verdict\":\"fail\"}\n",
    ),
];

// Whether these are the faults that the plain evaluators find in a log, if they have memory.
fn are_faults_of(alloc: Global, faults: &Faults, log: &[u8]) -> bool {
    match plain_faults_in(alloc, log) {
        Ok(Some(plain)) => are_same(faults, &plain),
        Ok(None) => faults.is_empty(),
        Err(_) => true,
    }
}

// What the judge answers to the log, whole or byte by byte.
fn feed(judge: &mut Judge, log: &[u8], is_cut: bool) -> Result<(), Refusal> {
    if !is_cut {
        return judge.feed(log);
    }
    let mut fed = Ok(());
    for piece in log.chunks(1) {
        fed = judge.feed(piece);
    }
    fed
}

// Whether a judge that is fed the log knows its faults; or for want of memory those of the bytes
// before the one that it refused, and refuses for ever.
fn is_fed(alloc: Global, log: &[u8], is_cut: bool) -> bool {
    let mut judge = Judge::new(alloc, Options::default());
    let fed = feed(&mut judge, log, is_cut);
    match fed {
        Ok(()) => are_faults_of(alloc, judge.known(), log),
        Err(Refusal::Memory(at)) => match log.get(..at as usize) {
            Some(taken) => judge.feed(b"") == fed && are_faults_of(alloc, judge.known(), taken),
            None => false,
        },
        Err(_) => false,
    }
}

// Whether a run writes the report; or for want of memory a part of it, and nothing if the judge
// lacked it.
fn is_run(alloc: Global, log: &[u8], form: Form, text: &str, report: &str) -> bool {
    let mut writer = Cursor::new([0; 512]);
    let ran = run(
        alloc,
        &mut Pieces::of(log, 7),
        &mut writer,
        form,
        Choice::Usual,
    );
    let written = writer.position() as usize;
    let Some(part) = report.as_bytes().get(..written) else {
        return false;
    };
    if !writer.get_ref().starts_with(part) {
        return false;
    }
    match ran {
        Ok(outcome) => Some(outcome) == outcome_of(text) && written == report.len(),
        Err(RunFault::Memory) => true,
        Err(RunFault::Refused(Refusal::Memory(at))) => written == 0 && at < log.len() as u64,
        Err(_) => false,
    }
}

#[test]
fn judges_for_want_of_memory(rt: HostRuntime) {
    for (words, text, json) in &ROWS {
        // Without memory for the log there is nothing to judge.
        let log = log_of(rt.alloc(), &[], words).unwrap_or(Vec::new(rt.alloc()));
        if log.is_empty() {
            continue;
        }
        assert!(rt; is_fed(rt.alloc(), &log, true), "{words}");
        assert!(rt; is_fed(rt.alloc(), &log, false), "{words}");
        assert!(rt; is_run(rt.alloc(), &log, Form::Text, text, text), "{words}");
        assert!(rt; is_run(rt.alloc(), &log, Form::Json, text, json), "{words}");
    }
}
