//! The conformance suite: each of its logs whole and in pieces, in both versions, with its report
//! as text and as JSON, and the faults that the plain evaluators find.
use super::plain::are_faults_alike;
use super::statements::{add_word, log_of, outcome_of, parts_of, report_of, suite};
use mq_harness::{Pieces, reports};
use mq_judge::{Form, Outcome};
use std::alloc::{AllocError, Global};
use std::test::Fail;

// The moment of each record of a log of version 2.
const MOMENT: &[u8] = &[0x00, 0x06, 0x61, 0x30, 0xeb, 0xb5, 0x6a, 0x80];

// Appends this record, if there is one.
fn add_late(
    alloc: Global,
    log: &mut Vec<u8>,
    late: Option<&'static str>,
) -> Result<(), AllocError> {
    match late {
        Some(word) => add_word(alloc, log, &[], word),
        None => Ok(()),
    }
}

// The log of these words in which each CONNACK comes after the packets that follow it.
fn log_with_late_connack(alloc: Global, words: &'static str) -> Result<Vec<u8>, AllocError> {
    let mut log = Vec::new(alloc);
    let mut late = None;
    for word in words.split_whitespace() {
        if word.contains("CONNACK") {
            late = Some(word);
            continue;
        }
        if !word.starts_with('>') && !word.starts_with('<') {
            add_late(alloc, &mut log, late)?;
            late = None;
        }
        add_word(alloc, &mut log, &[], word)?;
    }
    add_late(alloc, &mut log, late)?;
    Ok(log)
}

// The words of a line.
fn words_of(alloc: Global, line: &'static str) -> Result<Vec<&'static str>, AllocError> {
    let mut words = Vec::new(alloc);
    for word in line.split_whitespace() {
        words.push(word)?;
    }
    Ok(words)
}

// The JSON for a fault with these words.
fn fault_of(alloc: Global, words: &[&str]) -> Result<String, Fail> {
    let [
        _,
        position,
        code,
        citation,
        _,
        decided,
        _,
        record,
        _,
        offset,
    ] = words
    else {
        return Err("a line has other words".into());
    };
    let offset = if *offset == "-" { "null" } else { *offset };
    let fault = format!(in alloc;
        "{{\"citation\":\"{citation}\",\"code\":\"{code}\",\"decided\":{decided},\
        \"offset\":{offset},\"position\":{position},\"record\":{record}}}"
    )?;
    Ok(fault)
}

// The JSON report with this fault, if there is one, that says what these words of a last line say.
fn report_in_json(alloc: Global, fault: &str, words: &[&str]) -> Result<String, Fail> {
    let [verdict, .., events, _] = words else {
        return Err("the last line has other words".into());
    };
    let json = format!(in alloc;
        "{{\"events\":{events},\"faults\":[{fault}],\"verdict\":\"{verdict}\"}}\n"
    )?;
    Ok(json)
}

// The JSON report that says what these lines say: one on a fault, if there is one, a semicolon, and
// the last line.
fn json_of(alloc: Global, lines: &'static str) -> Result<String, Fail> {
    match lines.split_once(';') {
        Some((line, last)) => {
            let fault = fault_of(alloc, &words_of(alloc, line)?)?;
            report_in_json(alloc, fault.as_str(), &words_of(alloc, last)?)
        }
        None => report_in_json(alloc, "", &words_of(alloc, lines)?),
    }
}

// Whether the log is judged so in this form: whole, byte by byte and in pieces of 7 bytes.
fn is_reported_in(
    alloc: Global,
    log: &[u8],
    form: Form,
    outcome: Option<Outcome>,
    report: &str,
) -> Result<bool, Fail> {
    for size in [usize::MAX, 1, 7] {
        if !reports(alloc, &mut Pieces::of(log, size), form, outcome, report)? {
            return Ok(false);
        }
    }
    Ok(true)
}

// Whether the log is judged so in both forms, and has the faults that the plain evaluators find.
fn is_judged_so(alloc: Global, log: &[u8], text: &str, json: &str) -> Result<bool, Fail> {
    let outcome = outcome_of(text);
    Ok(
        is_reported_in(alloc, log, Form::Text, outcome, text)?
            && is_reported_in(alloc, log, Form::Json, outcome, json)?
            && are_faults_alike(alloc, log)?,
    )
}

// Whether the log of these words is judged as these lines say. Its records have this moment, if
// that isn't empty.
fn is_log_right(
    alloc: Global,
    moment: &[u8],
    words: &'static str,
    lines: &'static str,
) -> Result<bool, Fail> {
    let log = log_of(alloc, moment, words)?;
    let text = report_of(alloc, lines)?;
    let json = json_of(alloc, lines)?;
    is_judged_so(alloc, &log, text.as_str(), json.as_str())
}

// Whether the judge finds what the plain evaluators do if the CONNACKs come later.
fn is_late_log_right(alloc: Global, words: &'static str) -> Result<bool, Fail> {
    let log = log_with_late_connack(alloc, words)?;
    Ok(are_faults_alike(alloc, &log)?)
}

// Whether the log of a row is judged as the row says, in both versions, and also if its CONNACKs
// come later as the plain evaluators judge it.
fn is_row_right(alloc: Global, row: &'static str) -> Result<bool, Fail> {
    match parts_of(row) {
        Some((words, lines)) => Ok(
            is_log_right(alloc, &[], words, lines)?
                && is_log_right(alloc, MOMENT, words, lines)?
                && is_late_log_right(alloc, words)?,
        ),
        None => Ok(false),
    }
}

// The first row whose log is judged differently.
fn first_wrong(alloc: Global, rows: &'static str) -> Result<Option<&'static str>, Fail> {
    for row in rows.split('\n') {
        if !is_row_right(alloc, row)? {
            return Ok(Some(row));
        }
    }
    Ok(None)
}

#[test]
fn judges_the_suite_on_packets(rt: HostRuntime) -> Result<(), Fail> {
    for rows in [suite::SHAPES, suite::TOPICS] {
        assert_eq!(rt; first_wrong(rt.alloc(), rows)?, None);
    }
    Ok(())
}

#[test]
fn judges_the_suite_on_connections(rt: HostRuntime) -> Result<(), Fail> {
    for rows in [suite::BEGINNINGS, suite::LIMITS] {
        assert_eq!(rt; first_wrong(rt.alloc(), rows)?, None);
    }
    Ok(())
}

#[test]
fn judges_the_suite_on_identifiers(rt: HostRuntime) -> Result<(), Fail> {
    for rows in [suite::IDENTIFIERS, suite::EXCHANGES] {
        assert_eq!(rt; first_wrong(rt.alloc(), rows)?, None);
    }
    Ok(())
}

#[test]
fn judges_the_suite_on_answers(rt: HostRuntime) -> Result<(), Fail> {
    for rows in [suite::ANSWERS, suite::MESSAGES] {
        assert_eq!(rt; first_wrong(rt.alloc(), rows)?, None);
    }
    Ok(())
}
