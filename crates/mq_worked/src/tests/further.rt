//! Logs that put further statements to the test. The judge and the plain evaluators find the same
//! faults in each, with all statements chosen that need no times.
use super::plain::{are_further_faults_alike, plain_further_faults_in};
use super::statements::log_of;
use mq_rules::{FaultKey, Faults, Further, Rule};
use std::alloc::Global;
use std::test::Fail;

// A statement, the position at which a log breaks it, the one that decides that, and the log.
static BROKEN: [(Rule, u32, u32, &str); 31] = [
    (
        Rule::B05,
        5,
        5,
        "server OPEN <CONNECT-NAMED >CONNACK <SUBSCRIBE-0:1 >SUBACK:1",
    ),
    (
        Rule::B05,
        5,
        5,
        "server OPEN <CONNECT-NAMED >CONNACK <820B0001000001610200016200 >90050001008701",
    ),
    (
        Rule::B05,
        5,
        5,
        "server OPEN <CONNECT-NAMED <SUBSCRIBE-0:1 >CONNACK >SUBACK-1:1",
    ),
    (
        Rule::B06,
        7,
        7,
        "server OPEN <CONNECT-NAMED >CONNACK <SUBSCRIBE:1 >SUBACK:1 <UNSUBSCRIBE:1 >B00400010011",
    ),
    (
        Rule::B06,
        11,
        11,
        "server OPEN <CONNECT-KEPT >CONNACK <SUBSCRIBE:1 >SUBACK:1 CLOSE OPEN <RECONNECT >CONNACK-RESUMED <UNSUBSCRIBE:1 >B00400010011",
    ),
    (
        Rule::B06,
        7,
        7,
        "server OPEN <CONNECT-NAMED >CONNACK <SUBSCRIBE:1 >SUBACK:1 <A209000100000162000161 >B0050001001111",
    ),
    (
        Rule::B07,
        5,
        5,
        "server OPEN <CONNECT-NAMED >CONNACK <UNSUBSCRIBE:1 >UNSUBACK:1",
    ),
    (
        Rule::B07,
        7,
        7,
        "server OPEN <CONNECT-NAMED >CONNACK <SUBSCRIBE:1 >SUBACK-REFUSED:1 <UNSUBSCRIBE:1 >UNSUBACK:1",
    ),
    (
        Rule::F01,
        4,
        4,
        "client OPEN >CONNECT <20050000022500 >31050001610078",
    ),
    (
        Rule::F02,
        4,
        4,
        "client OPEN >CONNECT <20050000022800 >820700010000012302",
    ),
    (
        Rule::F03,
        4,
        4,
        "client OPEN >CONNECT <20050000022900 >82090001020B0700016102",
    ),
    (
        Rule::F04,
        4,
        4,
        "client OPEN >CONNECT <20050000022A00 >8210000100000A2473686172652F672F6102",
    ),
    (
        Rule::F05,
        3,
        3,
        "server OPEN <101500044D5154540516003C0000016300000177000178 >CONNACK-QOS-1",
    ),
    (
        Rule::F06,
        3,
        3,
        "server OPEN <101500044D5154540526003C0000016300000177000178 >20050000022500",
    ),
    (
        Rule::V03,
        4,
        4,
        "client OPEN >CONNECT <CONNACK >8210000100000A2473686172652F2B2F6102",
    ),
    (
        Rule::V04,
        4,
        4,
        "client OPEN >CONNECT <CONNACK >8210000100000A2473686172652F672F6106",
    ),
    (Rule::V06, 4, 4, "client OPEN >CONNECT <CONNACK >E0018E"),
    (
        Rule::V06,
        5,
        5,
        "client OPEN >CONNECT <CONNACK <PUBLISH1:1 >4003000110",
    ),
    (
        Rule::V06,
        4,
        4,
        "server OPEN <CONNECT-NAMED >CONNACK >E00104",
    ),
    (Rule::C24, 2, 3, "server OPEN <CONNECT-NAMED REST REST"),
    (
        Rule::C24,
        2,
        6,
        "server OPEN <101200044D5154540502003C041500016D000163 >F00618041500016D REST <F00618041500016D REST",
    ),
    (
        Rule::C24,
        6,
        7,
        "server OPEN <CONNECT-NAMED >CONNACK CLOSE OPEN <CONNECT-NAMED REST",
    ),
    (
        Rule::D01,
        4,
        6,
        "server OPEN <CONNECT-NAMED >CONNACK <C00100 <C00100 REST REST",
    ),
    (
        Rule::D01,
        8,
        9,
        "server OPEN <CONNECT-NAMED >CONNACK <C00100 CLOSE OPEN <CONNECT-NAMED <LOST REST",
    ),
    (
        Rule::D02,
        4,
        6,
        "server OPEN <CONNECT-NAMED >CONNACK <CONNECT-NAMED <CONNECT-NAMED REST",
    ),
    (
        Rule::A01,
        3,
        3,
        "client OPEN >101200044D5154540502003C041500016D000163 >PINGREQ",
    ),
    (
        Rule::A01,
        8,
        8,
        "client OPEN >101200044D5154540502003C041500016D000163 <CONNACK >PINGREQ CLOSE OPEN >101200044D5154540502003C041500016D000163 >PINGREQ",
    ),
    (
        Rule::A02,
        4,
        4,
        "client OPEN >CONNECT <CONNACK >F00618041500016D",
    ),
    (
        Rule::A02,
        3,
        3,
        "server OPEN <CONNECT-NAMED >20070000041500016D",
    ),
    (
        Rule::A03,
        3,
        3,
        "client OPEN >101200044D5154540502003C041500016D000163 >F00618041500016E",
    ),
    (
        Rule::A03,
        3,
        3,
        "server OPEN <101200044D5154540502003C041500016D000163 >20070000041500016E",
    ),
];

// Logs that put a further statement to the test, and keep it.
static KEPT: [&str; 26] = [
    "server OPEN <CONNECT-NAMED >CONNACK <SUBSCRIBE:1 >SUBACK-0:1",
    "server OPEN <CONNECT-NAMED >CONNACK <SUBSCRIBE:1 <SUBSCRIBE-0:1 >SUBACK:1",
    "server OPEN <CONNECT-NAMED >CONNACK <SUBSCRIBE:1 >SUBACK:1 <UNSUBSCRIBE:1 >UNSUBACK:1",
    "server OPEN <CONNECT-NAMED >CONNACK <UNSUBSCRIBE:1 >B00400010011",
    "server OPEN <CONNECT-NAMED >CONNACK <SUBSCRIBE:1 >SUBACK:1 <A209000100000161000161 >B0050001000011",
    "server OPEN <CONNECT-NAMED >CONNACK <SUBSCRIBE:1 >SUBACK:1 <SUBSCRIBE:1 <UNSUBSCRIBE:2 >B00400020011",
    "server OPEN <CONNECT-NAMED >CONNACK <SUBSCRIBE:1 >SUBACK:1 <UNSUBSCRIBE:1 <UNSUBSCRIBE:2 >B00400010011",
    "server OPEN <CONNECT-NAMED >CONNACK <SUBSCRIBE:1 <UNSUBSCRIBE:2 >B00400020000",
    "server OPEN <CONNECT-KEPT >CONNACK <SUBSCRIBE:1 >SUBACK:1 CLOSE OPEN <CONNECT-NAMED >CONNACK <UNSUBSCRIBE:1 >B00400010011",
    "client OPEN >CONNECT <20050000022500 >PUBLISH0",
    "client OPEN >CONNECT <20050000022500 CLOSE OPEN >CONNECT <CONNACK >31050001610078",
    "client OPEN >CONNECT <20050000022800 >SUBSCRIBE:1",
    "client OPEN >CONNECT <20050000022801 >820700010000012302",
    "client OPEN >CONNECT <20050000022900 >SUBSCRIBE:1",
    "client OPEN >CONNECT <20050000022A00 >SUBSCRIBE:1",
    "server OPEN <101500044D5154540516003C0000016300000177000178 >2003009B00",
    "server OPEN <101500044D5154540526003C0000016300000177000178 >2003009A00",
    "client OPEN >CONNECT <CONNACK >8210000100000A2473686172652F672F6102",
    "client OPEN >CONNECT <CONNACK >E00104",
    "server OPEN <CONNECT-NAMED >CONNACK-REFUSED REST",
    "server OPEN <CONNECT-NAMED >CONNACK <C00100 >E00181 REST",
    "server OPEN <CONNECT-NAMED >CONNACK <CONNECT-NAMED >E00182 REST",
    "server OPEN <CONNECT-NAMED >CONNACK <CONNECT-NAMED CLOSE OPEN <CONNECT-NAMED >CONNACK REST",
    "client OPEN >101200044D5154540502003C041500016D000163 <LOST >PINGREQ",
    "client OPEN >CONNECT >101200044D5154540502003C041500016D000163 >PINGREQ",
    "server OPEN <101200044D5154540502003C041500016D000163 >F00618041500016D <F00618041500016D >20070000041500016D REST",
];

/// Whether the judge and the plain evaluators find the same faults in the log of these words, and
/// this one among them.
pub fn is_found_broken(
    alloc: Global,
    rule: Rule,
    position: u32,
    decided: u32,
    words: &'static str,
) -> Result<bool, Fail> {
    let log = log_of(alloc, &[], words)?;
    let Some(faults) = plain_further_faults_in(alloc, &log, Further::ON_REQUEST)? else {
        return Ok(false);
    };
    let Some(fault) = faults.get(FaultKey { position, rule }) else {
        return Ok(false);
    };
    Ok(fault.decided == decided && are_further_faults_alike(alloc, &log, Further::ON_REQUEST)?)
}

// Whether none of these faults is of a further statement.
fn has_no_further(faults: &Faults) -> bool {
    faults.iter().all(|(key, _)| !key.rule.is_further())
}

/// Whether the judge and the plain evaluators find the same faults in the log of these words, and
/// none of a further statement.
pub fn is_found_kept(alloc: Global, words: &'static str) -> Result<bool, Fail> {
    let log = log_of(alloc, &[], words)?;
    let Some(faults) = plain_further_faults_in(alloc, &log, Further::ON_REQUEST)? else {
        return Ok(false);
    };
    Ok(has_no_further(&faults) && are_further_faults_alike(alloc, &log, Further::ON_REQUEST)?)
}

#[test]
fn finds_further_faults_as_the_plain_evaluators_do(rt: HostRuntime) -> Result<(), Fail> {
    for (rule, position, decided, words) in &BROKEN {
        let found = is_found_broken(rt.alloc(), *rule, *position, *decided, words)?;
        assert!(rt; found, "{words}");
    }
    Ok(())
}

#[test]
fn finds_none_where_they_are_kept(rt: HostRuntime) -> Result<(), Fail> {
    for words in &KEPT {
        assert!(rt; is_found_kept(rt.alloc(), words)?, "{words}");
    }
    Ok(())
}
