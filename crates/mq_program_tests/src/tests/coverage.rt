//! `check --coverage`.
use mq_tasks_harness::{Desk, FAULTY, GOOD, NESTED, does};
use std::alloc::Global;
use std::fmt::Write as _;
use std::test::Fail;

// The code and the citation of each statement on a client whose log has releases, and at how many
// events it is put to the test in `GOOD` and in `FAULTY`. Bytes that break a rule put only that one
// to the test.
type Place = (&'static str, &'static str, u32, u32);

static PLACES: [Place; 53] = [
    ("W01", "MQTT-2.1.3-1", 1, 1),
    ("W02", "sec-2.1.2", 2, 1),
    ("W03", "MQTT-1.5.5-1", 2, 1),
    ("W04", "MQTT-1.5.4-1", 2, 1),
    ("W05", "MQTT-1.5.4-2", 2, 1),
    ("W06", "sec-2.1.4", 2, 1),
    ("W07", "MQTT-3.3.1-4", 1, 0),
    ("W08", "MQTT-3.3.1-2", 0, 0),
    ("W09", "sec-2.2.1", 1, 1),
    ("W10", "sec-2.2.2.2", 0, 0),
    ("W11", "sec-2.2.2.2", 0, 0),
    ("W12", "sec-2.2.2.2", 0, 0),
    ("W13", "sec-2.4", 0, 0),
    ("W14", "sec-3.3.2", 1, 0),
    ("W15", "sec-4.7", 0, 0),
    ("W16", "MQTT-3.8.3-2,MQTT-3.10.3-2", 0, 0),
    ("W17", "sec-3.8.3", 0, 0),
    ("W18", "sec-3.1.2", 1, 1),
    ("W19", "sec-3.1.2", 1, 1),
    ("W21", "sec-3.3.2", 0, 0),
    ("C01", "sec-2.1.2", 2, 2),
    ("C02", "MQTT-3.1.0-1", 1, 1),
    ("C03", "sec-3.1", 1, 1),
    ("C11", "MQTT-3.14.4-1", 0, 0),
    ("C13", "MQTT-3.2.2-4", 0, 0),
    ("C14", "MQTT-3.2.2-15", 0, 0),
    ("C15", "MQTT-3.2.2-17", 0, 0),
    ("C16", "sec-3.3.2", 0, 0),
    ("C17", "MQTT-3.2.2-11", 0, 0),
    ("C18", "MQTT-3.3.4-6", 1, 0),
    ("C20", "sec-3.14.2", 0, 0),
    ("C23", "MQTT-3.14.4-2", 0, 0),
    ("S01", "MQTT-2.2.1-3", 0, 0),
    ("S02", "MQTT-4.3.2-2,MQTT-4.3.3-2", 0, 0),
    ("S03", "MQTT-4.4.0-1", 0, 0),
    ("S04", "MQTT-4.3.3-6", 0, 0),
    ("S05", "MQTT-4.6.0-1", 0, 0),
    ("S06", "MQTT-4.4.0-1", 0, 0),
    ("S07", "MQTT-4.9.0-2", 0, 0),
    ("E1A", "MQTT-2.2.1-5", 0, 0),
    ("E1R", "MQTT-4.3.2-4", 0, 0),
    ("E1O", "MQTT-4.6.0-2", 0, 0),
    ("E2A", "MQTT-2.2.1-5", 0, 0),
    ("E2R", "MQTT-4.3.3-8", 0, 0),
    ("E2O", "MQTT-4.6.0-3", 0, 0),
    ("E3A", "MQTT-2.2.1-5", 0, 0),
    ("E3R", "MQTT-4.3.3-4", 0, 0),
    ("E3O", "MQTT-4.6.0-4", 0, 0),
    ("E4A", "MQTT-2.2.1-5", 0, 0),
    ("E4R", "MQTT-4.3.3-11", 0, 0),
    ("L1", "sec-4.3.3", 0, 0),
    ("L2", "MQTT-4.3.3-10", 0, 0),
    ("L3", "sec-4.3.3", 0, 0),
];

// A client whose log has no releases receives bytes that no packet begins with, before its CONNACK,
// and then sends one byte of its CONNECT.
static GIVEN_UP: &[u8] = b"MQTR\x01\x00\x00\x00\
    \x01\x00\x00\x00\x00\
    \x03\x00\x00\x00\x05\x20\xff\xff\xff\xff\
    \x02\x00\x00\x00\x01\x10";

// A client whose log has no releases sends one byte of its CONNECT and receives two of a CONNACK,
// and the connection closes.
static BROKEN_OFF: &[u8] = b"MQTR\x01\x00\x00\x00\
    \x01\x00\x00\x00\x00\
    \x02\x00\x00\x00\x01\x10\
    \x03\x00\x00\x00\x02\x20\x03\
    \x04\x00\x00\x00\x00";

// The lines on what these two put to the test: nothing.
fn untested_lines(alloc: Global, places: &[Place]) -> Result<String, Fail> {
    let mut text = String::new(alloc);
    for (code, citation, _, _) in places {
        if !code.starts_with("L") {
            write!(text, "tested {code} {citation} places 0\n")?;
        }
    }
    Ok(text)
}

// The lines on what `GOOD` puts to the test, or `FAULTY`.
fn tested_lines(alloc: Global, places: &[Place], is_faulty: bool) -> Result<String, Fail> {
    let mut text = String::new(alloc);
    for (code, citation, in_good, in_faulty) in places {
        let count = if is_faulty { *in_faulty } else { *in_good };
        write!(text, "tested {code} {citation} places {count}\n")?;
    }
    Ok(text)
}

// The same for `FAULTY` as JSON.
fn tested_as_json(alloc: Global, places: &[Place]) -> Result<String, Fail> {
    let mut text = String::new(alloc);
    for (code, citation, _, count) in places {
        text.push_str(if text.is_empty() { "[" } else { "," })?;
        write!(
            text,
            "{{\"citation\":\"{citation}\",\"code\":\"{code}\",\"places\":{count}}}"
        )?;
    }
    text.push_str("]")?;
    Ok(text)
}

// Whether the program writes this, with this status, for these words and this log.
fn writes(
    alloc: Global,
    words: &'static [&'static str],
    log: &'static [u8],
    status: u8,
    written: &str,
) -> bool {
    let mut desk = Desk::of(alloc, words, log, b"");
    does(&mut desk, status, written, "")
}

const COVERAGE: &[&str] = &["mqjudge", "check", "--coverage", "a.log"];

const SUMMARY: &[&str] = &["mqjudge", "check", "--coverage", "--summary", "a.log"];

// Whether what is tested is said before a pass.
fn is_pass_covered(alloc: Global) -> Result<bool, Fail> {
    let mut text = tested_lines(alloc, &PLACES, false)?;
    text.push_str("covered 15 of 53 statements\nunjudged answers no-rest\npass 4 events\n")?;
    Ok(writes(alloc, COVERAGE, GOOD, 0, text.as_str()))
}

#[test]
fn says_what_was_tested_before_a_pass(rt: HostRuntime) -> Result<(), Fail> {
    assert!(rt; is_pass_covered(rt.alloc())?);
    Ok(())
}

// Whether it is said what isn't judged of a log that puts nothing to the test.
fn is_untested(
    alloc: Global,
    words: &'static [&'static str],
    log: &'static [u8],
    unjudged: &str,
) -> Result<bool, Fail> {
    let mut text = untested_lines(alloc, &PLACES)?;
    text.push_str(unjudged)?;
    Ok(writes(alloc, words, log, 0, text.as_str()))
}

#[test]
fn says_what_was_not_judged(rt: HostRuntime) -> Result<(), Fail> {
    let unjudged = "covered 0 of 50 statements\n\
        unjudged received lost event 2 record 2\n\
        unjudged sent unfinished CONNECT bytes 1\n\
        unjudged session undecided event 1 record 1\n\
        unjudged answers no-rest\n\
        unjudged L1 L2 L3 no-releases\n\
        pass 2 events\n";
    assert!(rt;
        is_untested(rt.alloc(), COVERAGE, GIVEN_UP, unjudged)?,
        "lines"
    );
    assert!(rt;
        is_untested(rt.alloc(), SUMMARY, GIVEN_UP, unjudged)?,
        "summary"
    );
    Ok(())
}

#[test]
fn says_what_a_close_dropped(rt: HostRuntime) -> Result<(), Fail> {
    let unjudged = "covered 0 of 50 statements\n\
        unjudged sent unfinished CONNECT bytes 1 event 2 record 4\n\
        unjudged received unfinished CONNACK bytes 2 event 2 record 4\n\
        unjudged answers no-rest\n\
        unjudged L1 L2 L3 no-releases\n\
        pass 2 events\n";
    assert!(rt; is_untested(rt.alloc(), COVERAGE, BROKEN_OFF, unjudged)?);
    Ok(())
}

// Whether what `FAULTY` tests is said after this text.
fn is_fail_covered(
    alloc: Global,
    words: &'static [&'static str],
    faults: &str,
) -> Result<bool, Fail> {
    let lines = tested_lines(alloc, &PLACES, true)?;
    let mut text = String::from_str(alloc, faults)?;
    text.push_str(lines.as_str())?;
    text.push_str(
        "covered 12 of 53 statements\nunjudged answers no-rest\nfail 1 faults 4 events\n",
    )?;
    Ok(writes(alloc, words, FAULTY, 1, text.as_str()))
}

#[test]
fn says_what_was_tested_after_the_faults(rt: HostRuntime) -> Result<(), Fail> {
    let faults = "fault 4 W09 sec-2.2.1 decided 4 record 4 offset 5\n";
    assert!(rt; is_fail_covered(rt.alloc(), COVERAGE, faults)?);
    Ok(())
}

#[test]
fn says_what_was_tested_after_a_summary(rt: HostRuntime) -> Result<(), Fail> {
    let words = &["mqjudge", "check", "--summary", "--coverage", "a.log"];
    let faults = "W09 sec-2.2.1 faults 1 first 4 record 4\n";
    assert!(rt; is_fail_covered(rt.alloc(), words, faults)?);
    Ok(())
}

// Whether what `FAULTY` tests is said as JSON.
fn is_json_covered(alloc: Global, words: &'static [&'static str]) -> Result<bool, Fail> {
    let tested = tested_as_json(alloc, &PLACES)?;
    let mut text = String::from_str(alloc, "{\"coverage\":")?;
    text.push_str(tested.as_str())?;
    text.push_str(
        ",\"events\":4,\"faults\":[{\"citation\":\"sec-2.2.1\",\"code\":\"W09\",\"decided\":4,\
        \"offset\":5,\"position\":4,\"record\":4}],\
        \"unjudged\":[{\"what\":\"answers\",\"why\":\"no-rest\"}],\"verdict\":\"fail\"}\n",
    )?;
    Ok(writes(alloc, words, FAULTY, 1, text.as_str()))
}

#[test]
fn says_what_was_tested_as_json(rt: HostRuntime) -> Result<(), Fail> {
    let words = &["mqjudge", "check", "--coverage", "--json", "a.log"];
    assert!(rt; is_json_covered(rt.alloc(), words)?, "without a summary");
    let both = &[
        "mqjudge",
        "check",
        "--json",
        "--summary",
        "--coverage",
        "a.log",
    ];
    assert!(rt; is_json_covered(rt.alloc(), both)?, "with a summary");
    Ok(())
}

#[test]
fn says_nothing_of_what_a_refused_log_tests(rt: HostRuntime) {
    let refused = "refused 7 Nested at 13\n";
    assert!(rt; writes(rt.alloc(), COVERAGE, NESTED, 2, refused));
}
