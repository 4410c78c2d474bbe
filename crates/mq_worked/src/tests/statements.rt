//! Worked logs: for each statement, and each end that it binds, a log that breaks it and the
//! nearest one that doesn't, with the whole report on it. Each is written from the statement's
//! words, and not from what the program does.
//!
//! A log is a row of words. The first names the tested end: `client` or `server`, or
//! `silent-client` if no releases are recorded. Each other word is a record: `OPEN`, `CLOSE`,
//! `REST`, `RELEASE:1`, and `>CONNECT` or `<CONNACK` for bytes that the tested end sent or
//! received, by a name of `packets` or in hexadecimal.
//!
//! A table of logs is a text with one row a line: what the row shows, the log, and the report, with
//! a semicolon between its lines.

mod choices;
mod corners;
mod early;
mod exchanges;
mod identifiers;
mod later;
mod packets;
mod pasts;
mod releases;
mod resends;
mod rests;
mod shapes;
mod subscriptions;
pub mod suite;
mod unseen;
mod untold;
mod worked;

use super::plain::{are_faults_alike, are_further_faults_alike};
use mq_harness::{FAULTY, PASSED, REFUSED, add_timed_record, is_reported, weight_of};
use mq_judge::Outcome;
use mq_rules::Further;
use packets::PACKETS;
use std::alloc::{AllocError, Global};
use std::str;
use std::test::Fail;

// The hexadecimal digits that a word names, or the word itself.
fn digits_of(word: &'static str) -> &'static str {
    for (name, digits) in &PACKETS {
        if *name == word {
            return digits;
        }
    }
    word
}

// The byte that these two hexadecimal digits are.
fn byte_of(pair: &[u8]) -> Option<u8> {
    match str::from_utf8(pair) {
        Ok(digits) if pair.len() == 2 => u8::from_str_radix(digits, 16).ok(),
        _ => None,
    }
}

// The bytes that these hexadecimal digits are, two each.
fn bytes_of(alloc: Global, digits: &str) -> Result<Vec<u8>, AllocError> {
    let mut bytes = Vec::new(alloc);
    for pair in digits.as_bytes().chunks(2) {
        match byte_of(pair) {
            Some(byte) => bytes.push(byte)?,
            None => return Err(AllocError),
        }
    }
    Ok(bytes)
}

// Appends what was sent or received to the log.
fn add_bytes(
    alloc: Global,
    log: &mut Vec<u8>,
    moment: &[u8],
    kind: u8,
    word: &'static str,
) -> Result<(), AllocError> {
    let bytes = bytes_of(alloc, digits_of(word))?;
    add_timed_record(log, kind, moment, &bytes)
}

// Appends a header to the log: of version 2 if records have a moment, else of version 1.
fn add_header(log: &mut Vec<u8>, moment: &[u8], end: &[u8]) -> Result<(), AllocError> {
    log.extend_from_slice(b"MQTR")?;
    log.push(if moment.is_empty() { 1 } else { 2 })?;
    log.extend_from_slice(end)
}

// Appends what the word says to the log: its header, or a record.
pub fn add_word(
    alloc: Global,
    log: &mut Vec<u8>,
    moment: &[u8],
    word: &'static str,
) -> Result<(), AllocError> {
    if let Some(packet) = word.strip_prefix('>') {
        return add_bytes(alloc, log, moment, 2, packet);
    }
    if let Some(packet) = word.strip_prefix('<') {
        return add_bytes(alloc, log, moment, 3, packet);
    }
    match word {
        "client" => add_header(log, moment, b"\x00\x01\x00"),
        "silent-client" => add_header(log, moment, b"\x00\x00\x00"),
        "server" => add_header(log, moment, b"\x01\x01\x00"),
        "OPEN" => add_timed_record(log, 1, moment, &[]),
        "CLOSE" => add_timed_record(log, 4, moment, &[]),
        "REST" => add_timed_record(log, 5, moment, &[]),
        "RELEASE:0" => add_timed_record(log, 6, moment, &[0, 0]),
        "RELEASE:1" => add_timed_record(log, 6, moment, &[0, 1]),
        "RELEASE:2" => add_timed_record(log, 6, moment, &[0, 2]),
        _ => Err(AllocError),
    }
}

// The log of these words, in version 2 if there is a moment, which each record then has.
pub fn log_of(alloc: Global, moment: &[u8], words: &'static str) -> Result<Vec<u8>, AllocError> {
    let mut log = Vec::new(alloc);
    for word in words.split_whitespace() {
        add_word(alloc, &mut log, moment, word)?;
    }
    Ok(log)
}

// The outcome of a judging that writes this report.
pub fn outcome_of(report: &str) -> Option<Outcome> {
    if report.starts_with("pass") {
        PASSED
    } else if report.starts_with("refused") {
        REFUSED
    } else {
        FAULTY
    }
}

// The report with these lines, which are separated by semicolons.
pub fn report_of(alloc: Global, lines: &'static str) -> Result<String, AllocError> {
    let mut report = String::new(alloc);
    for line in lines.split(';') {
        report.push_str(line.trim())?;
        report.push('\n')?;
    }
    Ok(report)
}

// Whether the judge and the plain evaluators find the same faults in the log of these words, also
// if the further statements are asked for, and the report on it without them is that of these
// lines.
fn is_judged_so(alloc: Global, words: &'static str, lines: &'static str) -> Result<bool, Fail> {
    let log = log_of(alloc, &[], words)?;
    let report = report_of(alloc, lines)?;
    let alike = are_faults_alike(alloc, &log)?
        && are_further_faults_alike(alloc, &log, Further::ON_REQUEST)?;
    Ok(alike && is_reported(alloc, &log, outcome_of(report.as_str()), report.as_str())?)
}

// The words of a row's log, and the lines of its report.
pub fn parts_of(row: &'static str) -> Option<(&'static str, &'static str)> {
    let (_, rest) = row.split_once('|')?;
    rest.split_once('|')
}

// Whether the log of a row is judged as the row says.
fn is_row_right(alloc: Global, row: &'static str) -> Result<bool, Fail> {
    match parts_of(row) {
        Some((words, lines)) => is_judged_so(alloc, words, lines),
        None => Ok(false),
    }
}

// The first row whose log is judged differently.
fn first_wrong(alloc: Global, rows: &'static str) -> Result<Option<&'static str>, Fail> {
    for row in rows.split('\n') {
        if !is_row_right(alloc, row)? {
            return Ok(Some(row));
        }
    }
    Ok(None)
}

// Whether a judge that has taken in this log weighs so much.
fn weighs(alloc: Global, words: &'static str, weight: usize) -> Result<bool, Fail> {
    let log = log_of(alloc, &[], words)?;
    Ok(weight_of(alloc, &log) == Some(weight))
}

// Logs and what they weigh. An identifier that is in use is in one collection until it is set free;
// an undecided connection's events are held; and what waits for its answer on a connection weighs
// nothing from its CLOSE on.
static WEIGHTS: [(&str, usize); 6] = [
    ("client OPEN >CONNECT <CONNACK", 0),
    ("client OPEN >CONNECT <CONNACK >PUBLISH1:1", 1),
    ("client OPEN >CONNECT <CONNACK >PUBLISH1:1 <PUBACK:1", 0),
    ("client OPEN >CONNECT >PUBLISH1:1", 3),
    ("client OPEN >CONNECT <CONNACK >SUBSCRIBE:1", 1),
    ("client OPEN >CONNECT <CONNACK >SUBSCRIBE:1 CLOSE", 0),
];

#[test]
fn weighs_what_is_open(rt: HostRuntime) -> Result<(), Fail> {
    for (words, weight) in &WEIGHTS {
        assert!(rt; weighs(rt.alloc(), words, *weight)?, "{words}");
    }
    Ok(())
}

#[test]
fn judges_worked_logs(rt: HostRuntime) -> Result<(), Fail> {
    assert_eq!(rt; first_wrong(rt.alloc(), worked::ROWS)?, None);
    Ok(())
}

#[test]
fn judges_the_spelling_of_packets(rt: HostRuntime) -> Result<(), Fail> {
    assert_eq!(rt; first_wrong(rt.alloc(), shapes::FRAMING)?, None);
    Ok(())
}

#[test]
fn judges_flags_identifiers_and_properties(rt: HostRuntime) -> Result<(), Fail> {
    assert_eq!(rt; first_wrong(rt.alloc(), shapes::FIELDS)?, None);
    Ok(())
}

#[test]
fn judges_topics_and_filters(rt: HostRuntime) -> Result<(), Fail> {
    assert_eq!(rt; first_wrong(rt.alloc(), shapes::TEXTS)?, None);
    Ok(())
}

#[test]
fn judges_how_a_connection_begins(rt: HostRuntime) -> Result<(), Fail> {
    assert_eq!(rt; first_wrong(rt.alloc(), pasts::BEGINNINGS)?, None);
    Ok(())
}

#[test]
fn judges_sessions_that_are_resumed(rt: HostRuntime) -> Result<(), Fail> {
    assert_eq!(rt; first_wrong(rt.alloc(), pasts::SESSIONS)?, None);
    Ok(())
}

#[test]
fn judges_by_what_the_peer_announced(rt: HostRuntime) -> Result<(), Fail> {
    assert_eq!(rt; first_wrong(rt.alloc(), pasts::LIMITS)?, None);
    Ok(())
}

#[test]
fn judges_properties_and_rest(rt: HostRuntime) -> Result<(), Fail> {
    assert_eq!(rt; first_wrong(rt.alloc(), pasts::PROPERTIES)?, None);
    Ok(())
}

#[test]
fn judges_identifiers_of_messages(rt: HostRuntime) -> Result<(), Fail> {
    assert_eq!(rt; first_wrong(rt.alloc(), identifiers::ROWS)?, None);
    Ok(())
}

#[test]
fn judges_what_the_requests_ask(rt: HostRuntime) -> Result<(), Fail> {
    assert_eq!(rt; first_wrong(rt.alloc(), resends::REQUESTS)?, None);
    Ok(())
}

#[test]
fn judges_what_is_sent_again(rt: HostRuntime) -> Result<(), Fail> {
    assert_eq!(rt; first_wrong(rt.alloc(), resends::RESENDS)?, None);
    Ok(())
}

#[test]
fn judges_what_a_resumed_session_owes(rt: HostRuntime) -> Result<(), Fail> {
    assert_eq!(rt; first_wrong(rt.alloc(), resends::REDELIVERY)?, None);
    Ok(())
}

#[test]
fn judges_exchanges(rt: HostRuntime) -> Result<(), Fail> {
    assert_eq!(rt; first_wrong(rt.alloc(), exchanges::EXCHANGES)?, None);
    Ok(())
}

#[test]
fn judges_the_corners_of_exchanges(rt: HostRuntime) -> Result<(), Fail> {
    assert_eq!(rt; first_wrong(rt.alloc(), exchanges::CASES)?, None);
    Ok(())
}

#[test]
fn judges_releases(rt: HostRuntime) -> Result<(), Fail> {
    assert_eq!(rt; first_wrong(rt.alloc(), releases::ROWS)?, None);
    Ok(())
}

#[test]
fn judges_subscriptions(rt: HostRuntime) -> Result<(), Fail> {
    assert_eq!(rt; first_wrong(rt.alloc(), subscriptions::ROWS)?, None);
    Ok(())
}

#[test]
fn judges_sessions_over_several_connections(rt: HostRuntime) -> Result<(), Fail> {
    assert_eq!(rt; first_wrong(rt.alloc(), later::ROWS)?, None);
    Ok(())
}

#[test]
fn judges_packets_before_the_connack(rt: HostRuntime) -> Result<(), Fail> {
    assert_eq!(rt; first_wrong(rt.alloc(), early::ROWS)?, None);
    Ok(())
}

#[test]
fn judges_what_an_end_cannot_know(rt: HostRuntime) -> Result<(), Fail> {
    assert_eq!(rt; first_wrong(rt.alloc(), untold::ROWS)?, None);
    Ok(())
}

#[test]
fn judges_what_a_rest_shows(rt: HostRuntime) -> Result<(), Fail> {
    assert_eq!(rt; first_wrong(rt.alloc(), rests::ROWS)?, None);
    Ok(())
}

#[test]
fn judges_what_may_be_discarded(rt: HostRuntime) -> Result<(), Fail> {
    assert_eq!(rt; first_wrong(rt.alloc(), unseen::PASSED_OVER)?, None);
    Ok(())
}

#[test]
fn judges_what_was_cut_off(rt: HostRuntime) -> Result<(), Fail> {
    assert_eq!(rt; first_wrong(rt.alloc(), unseen::CUT_OFF)?, None);
    Ok(())
}

#[test]
fn judges_what_was_sent_before_its_session(rt: HostRuntime) -> Result<(), Fail> {
    assert_eq!(rt; first_wrong(rt.alloc(), unseen::SENT_EARLY)?, None);
    Ok(())
}

#[test]
fn judges_corners_of_sessions(rt: HostRuntime) -> Result<(), Fail> {
    assert_eq!(rt; first_wrong(rt.alloc(), corners::ROWS)?, None);
    Ok(())
}

#[test]
fn settles_what_the_standard_leaves_open(rt: HostRuntime) -> Result<(), Fail> {
    assert_eq!(rt; first_wrong(rt.alloc(), choices::ROWS)?, None);
    Ok(())
}
