//! Logs with moments that put the statements on times to the test. The judge and the plain
//! evaluators find the same faults in each, with all statements chosen.
use super::plain::{are_further_faults_alike, plain_further_faults_in};
use super::statements::add_word;
use mq_rules::{FaultKey, Faults, Further, Rule};
use std::alloc::{AllocError, Global};
use std::test::Fail;

// A statement, the position at which a log breaks it, and the log. Its words are those of
// `statements`; `@76000001` says that the records after it were written 76,000,001 microseconds
// after the beginning. The Keep Alive is 60 seconds: the client may be silent for 76 seconds, and
// the server may leave it at that for 120.
static BROKEN: [(Rule, u32, &str); 9] = [
    (
        Rule::K01,
        4,
        "client OPEN >CONNECT <CONNACK @76000001 >PINGREQ",
    ),
    (
        Rule::K01,
        4,
        "client OPEN >CONNECT @50000000 <CONNACK @126000001 CLOSE",
    ),
    (
        Rule::K01,
        6,
        "client OPEN >CONNECT <CONNACK @76000001 <PINGRESP @80000000 >PINGREQ @160000000 REST",
    ),
    (
        Rule::K01,
        4,
        "client OPEN >CONNECT <200600000313000A @13500001 >PINGREQ",
    ),
    (
        Rule::K01,
        8,
        "client OPEN >CONNECT <CONNACK CLOSE @500000000 OPEN >CONNECT <CONNACK @576000001 REST",
    ),
    (
        Rule::K02,
        4,
        "server OPEN <CONNECT-NAMED >CONNACK @120000001 REST",
    ),
    (
        Rule::K02,
        5,
        "server OPEN <CONNECT-NAMED >CONNACK @119000000 <PINGREQ @239000001 >PINGRESP",
    ),
    (
        Rule::K02,
        4,
        "server OPEN <100E00044D5154540502000200000163 >CONNACK @8000001 CLOSE",
    ),
    (
        Rule::K02,
        4,
        "server OPEN <CONNECT-NAMED >200600000313000A @20000001 <PINGREQ",
    ),
];

// Logs that break no statement on times.
static KEPT: [&str; 13] = [
    "client OPEN >CONNECT <CONNACK @76000000 >PINGREQ",
    "client OPEN >CONNECT <CONNACK @60000000 >PINGREQ @136000000 CLOSE",
    "client OPEN >CONNECT @999000000 <CONNACK",
    "client OPEN >CONNECT <CONNACK-REFUSED @999000000 CLOSE",
    "client OPEN >CONNECT <CONNACK >DISCONNECT @999000000 CLOSE",
    "client OPEN >CONNECT <CONNACK <DISCONNECT @999000000 CLOSE",
    "client OPEN >100D00044D51545405020000000000 <CONNACK @999000000 >PINGREQ",
    "client OPEN >CONNECT <CONNACK CLOSE @500000000 OPEN >CONNECT <CONNACK @576000000 >PINGREQ",
    "client OPEN >CONNECT @900000000 <CONNACK @10 >PINGREQ",
    "server OPEN <CONNECT-NAMED >CONNACK @120000000 REST",
    "server OPEN <CONNECT-NAMED >CONNACK @90000001 CLOSE",
    "server OPEN <CONNECT-NAMED >CONNACK <LOST @999000000 REST",
    "server OPEN <CONNECT-NAMED @999000000 >CONNACK",
];

// The log of these words, in version 2.
fn timed_log_of(alloc: Global, words: &'static str) -> Result<Vec<u8>, AllocError> {
    let mut log = Vec::new(alloc);
    let mut moment = [0; 8];
    for word in words.split_whitespace() {
        match word.strip_prefix('@') {
            Some(digits) => moment = moment_of(digits)?,
            None => add_word(alloc, &mut log, &moment, word)?,
        }
    }
    Ok(log)
}

// The bytes of the moment that these decimal digits are.
fn moment_of(digits: &str) -> Result<[u8; 8], AllocError> {
    match u64::from_str_radix(digits, 10) {
        Ok(moment) => Ok(moment.to_be_bytes()),
        Err(_) => Err(AllocError),
    }
}

// Whether none of these faults is of a statement on times.
fn has_none_on_times(faults: &Faults) -> bool {
    faults.iter().all(|(key, _)| !key.rule.is_on_times())
}

// Whether the judge and the plain evaluators find the same faults in this log whatever is asked
// for, and none of a statement on times unless these are.
fn are_alike(alloc: Global, log: &[u8]) -> Result<bool, Fail> {
    let Some(faults) = plain_further_faults_in(alloc, log, Further::ON_REQUEST)? else {
        return Ok(false);
    };
    Ok(
        has_none_on_times(&faults)
            && are_further_faults_alike(alloc, log, Further::ON_REQUEST)?
            && are_further_faults_alike(alloc, log, Further::WITH_TIMES)?,
    )
}

// Whether they do in the log of these words, and this fault is found there.
fn is_found_broken(
    alloc: Global,
    rule: Rule,
    position: u32,
    words: &'static str,
) -> Result<bool, Fail> {
    let log = timed_log_of(alloc, words)?;
    let Some(faults) = plain_further_faults_in(alloc, &log, Further::WITH_TIMES)? else {
        return Ok(false);
    };
    match faults.get(FaultKey { position, rule }) {
        Some(fault) => Ok(fault.decided == position && are_alike(alloc, &log)?),
        None => Ok(false),
    }
}

// Whether they do in the log of these words, and none of a statement on times is.
fn is_found_kept(alloc: Global, words: &'static str) -> Result<bool, Fail> {
    let log = timed_log_of(alloc, words)?;
    let Some(faults) = plain_further_faults_in(alloc, &log, Further::WITH_TIMES)? else {
        return Ok(false);
    };
    Ok(has_none_on_times(&faults) && are_alike(alloc, &log)?)
}

#[test]
fn finds_faults_on_times_as_the_plain_evaluators_do(rt: HostRuntime) -> Result<(), Fail> {
    for (rule, position, words) in &BROKEN {
        let found = is_found_broken(rt.alloc(), *rule, *position, words)?;
        assert!(rt; found, "{words}");
    }
    Ok(())
}

#[test]
fn finds_none_on_times_where_they_are_kept(rt: HostRuntime) -> Result<(), Fail> {
    for words in &KEPT {
        assert!(rt; is_found_kept(rt.alloc(), words)?, "{words}");
    }
    Ok(())
}
