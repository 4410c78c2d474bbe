//! Logs that put the further statements on what is delivered to the test, which look at the
//! subscriptions that match it. The judge and the plain evaluators find the same faults in each.
use super::further::{is_found_broken, is_found_kept};
use mq_rules::Rule;
use std::test::Fail;

// A statement, the position at which a log breaks it, the one that decides that, and the log.
static BROKEN: [(Rule, u32, u32, &str); 23] = [
    // a filter that is shared, $share/g/a, and a PUBLISH on b
    (
        Rule::B08,
        6,
        6,
        "server OPEN <CONNECT-NAMED >CONNACK <8210000100000A2473686172652F672F6102 >SUBACK:1 >PUBLISH0-B",
    ),
    // before the CONNACK, which decides it
    (
        Rule::B08,
        4,
        5,
        "server OPEN <CONNECT-NAMED <8210000100000A2473686172652F672F6102 >PUBLISH0-B >CONNACK",
    ),
    // what was asked for is refused
    (
        Rule::B08,
        6,
        6,
        "server OPEN <CONNECT-NAMED >CONNACK <8210000100000A2473686172652F672F6102 >SUBACK-REFUSED:1 >PUBLISH0",
    ),
    // a Topic Alias that was set for b
    (
        Rule::B08,
        7,
        7,
        "server OPEN <CONNECT-ALIASES-5 >CONNACK <8210000100000A2473686172652F672F6102 >SUBACK:1 >30080001620323000178 >ALIAS-1",
    ),
    // a subscription of the session before
    (
        Rule::B08,
        12,
        12,
        "server OPEN <CONNECT-KEPT >CONNACK <SUBSCRIBE:1 >SUBACK:1 CLOSE OPEN <CONNECT-NAMED >CONNACK <8210000100000A2473686172652F672F6202 >SUBACK:1 >PUBLISH0",
    ),
    (
        Rule::B09,
        6,
        6,
        "server OPEN <CONNECT-NAMED >CONNACK <8210000100000A2473686172652F672F6102 >SUBACK-0:1 >PUBLISH1:1",
    ),
    // an ordinary subscription beside it
    (
        Rule::B09,
        8,
        8,
        "server OPEN <CONNECT-NAMED >CONNACK <8210000100000A2473686172652F672F6102 >SUBACK-1:1 <820700020000016102 >900400020000 >PUBLISH2:1",
    ),
    // the Subscription Identifier 2, where 1 was asked for
    (
        Rule::P01,
        6,
        6,
        "server OPEN <CONNECT-NAMED >CONNACK <82090001020B0100016102 >SUBACK:1 >3007000161020B0278",
    ),
    // before the CONNACK, which decides it
    (
        Rule::P01,
        4,
        5,
        "server OPEN <CONNECT-NAMED <82090001020B0100016102 >3007000161020B0278 >CONNACK",
    ),
    // both of them
    (
        Rule::P01,
        6,
        6,
        "server OPEN <CONNECT-NAMED >CONNACK <82090001020B0100016102 >SUBACK:1 >3009000161040B010B0278",
    ),
    // that of a filter that doesn't match
    (
        Rule::P01,
        8,
        8,
        "server OPEN <CONNECT-NAMED >CONNACK <82090001020B0100016102 >SUBACK:1 <82090002020B0200016202 >900400020002 >3007000161020B0278",
    ),
    // that of a filter that was refused
    (
        Rule::P01,
        8,
        8,
        "server OPEN <CONNECT-NAMED >CONNACK <82090001020B0100016102 >SUBACK:1 <82090002020B0200012302 >900400020080 >3007000161020B0278",
    ),
    // none was asked for
    (
        Rule::P01,
        6,
        6,
        "server OPEN <CONNECT-NAMED >CONNACK <SUBSCRIBE:1 >SUBACK:1 >3007000161020B0178",
    ),
    // that of the session before
    (
        Rule::P01,
        12,
        12,
        "server OPEN <CONNECT-KEPT >CONNACK <82090001020B0100016102 >SUBACK:1 CLOSE OPEN <CONNECT-NAMED >CONNACK <SUBSCRIBE:1 >SUBACK:1 >3007000161020B0178",
    ),
    // none, where 1 was asked for
    (
        Rule::P02,
        6,
        6,
        "server OPEN <CONNECT-NAMED >CONNACK <82090001020B0100016102 >SUBACK:1 >PUBLISH0",
    ),
    (
        Rule::P02,
        6,
        6,
        "server OPEN <CONNECT-NAMED >CONNACK <82120001020B01000A2473686172652F672F6102 >SUBACK:1 >PUBLISH0",
    ),
    // the other subscription doesn't match
    (
        Rule::P02,
        8,
        8,
        "server OPEN <CONNECT-NAMED >CONNACK <82090001020B0100016102 >SUBACK:1 <820700020000016202 >900400020002 >PUBLISH0",
    ),
    // Retain Handling 2
    (
        Rule::R01,
        6,
        6,
        "server OPEN <CONNECT-NAMED >CONNACK <820700010000016122 >SUBACK:1 >31050001610078",
    ),
    // a shared one with Retain Handling 2, too
    (
        Rule::R01,
        8,
        8,
        "server OPEN <CONNECT-NAMED >CONNACK <820700010000016122 >SUBACK:1 <8210000200000A2473686172652F672F6122 >900400020002 >31050001610078",
    ),
    (
        Rule::R02,
        6,
        6,
        "server OPEN <CONNECT-NAMED >CONNACK <8210000100000A2473686172652F672F6102 >SUBACK:1 >31050001610078",
    ),
    // an ordinary one with Retain Handling 2 beside it
    (
        Rule::R02,
        8,
        8,
        "server OPEN <CONNECT-NAMED >CONNACK <8210000100000A2473686172652F672F6102 >SUBACK:1 <820700020000016122 >900400020002 >31050001610078",
    ),
    // the session goes on
    (
        Rule::R02,
        10,
        10,
        "server OPEN <CONNECT-KEPT >CONNACK <8210000100000A2473686172652F672F6102 >SUBACK:1 CLOSE OPEN <RECONNECT >CONNACK-RESUMED >31050001610078",
    ),
    // the SUBACK answers the first of two under the identifier
    (
        Rule::B09,
        8,
        8,
        "server OPEN <CONNECT-NAMED >CONNACK <8210000100000A2473686172652F672F6102 <SUBSCRIBE-0:1 >SUBACK-1:1 >PUBLISH1:1 >PUBLISH2:2",
    ),
];

// Logs that put such a statement to the test, or nearly do, and keep it.
static KEPT: [&str; 28] = [
    // the filter after the ShareName, before the SUBACK and after it
    "server OPEN <CONNECT-NAMED >CONNACK <8210000100000A2473686172652F672F6102 >PUBLISH0 >SUBACK:1 >PUBLISH0",
    // the filter's own text
    "server OPEN <CONNECT-NAMED >CONNACK <8210000100000A2473686172652F672F6102 >SUBACK:1 >300E000A2473686172652F672F610078",
    // a wildcard after the ShareName
    "server OPEN <CONNECT-NAMED >CONNACK <8210000100000A2473686172652F672F2302 >SUBACK:1 >PUBLISH0-B",
    // an ordinary subscription beside it, which was given up
    "server OPEN <CONNECT-NAMED >CONNACK <SUBSCRIBE:1 >SUBACK:1 <8210000200000A2473686172652F672F6202 >900400020002 <UNSUBSCRIBE:1 >UNSUBACK:1 >PUBLISH0",
    // a topic that isn't known
    "server OPEN <CONNECT-ALIASES-5 >CONNACK <8210000100000A2473686172652F672F6102 >SUBACK:1 >ALIAS-1",
    // a SUBSCRIBE without filters, which breaks a rule
    "server OPEN <CONNECT-NAMED >CONNACK <8203000200 <8210000100000A2473686172652F672F6102 >SUBACK:1 >PUBLISH0-B",
    // no shared subscription
    "server OPEN <CONNECT-NAMED >CONNACK <SUBSCRIBE:1 >SUBACK:1 >PUBLISH0-B",
    // two that overlap, of which one allows the QoS
    "server OPEN <CONNECT-NAMED >CONNACK <8210000100000A2473686172652F672F6102 >SUBACK-0:1 <820700020000016101 >900400020001 >PUBLISH1:1",
    // the SUBACK answers the first of two under the identifier, which isn't shared
    "server OPEN <CONNECT-NAMED >CONNACK <SUBSCRIBE:1 <8210000100000A2473686172652F672F6102 >SUBACK-0:1 >PUBLISH2:1",
    // with the Subscription Identifier that was asked for
    "server OPEN <CONNECT-NAMED >CONNACK <82090001020B0100016102 >SUBACK:1 >3007000161020B0178",
    // before the SUBACK
    "server OPEN <CONNECT-NAMED >CONNACK <82090001020B0100016102 >3007000161020B0178 >SUBACK:1",
    // those of two that overlap
    "server OPEN <CONNECT-NAMED >CONNACK <82090001020B0100016102 >SUBACK:1 <82090002020B0200012302 >900400020002 >3009000161040B010B0278",
    // one that was asked for with two identifiers, one after the other
    "server OPEN <CONNECT-NAMED >CONNACK <82090001020B0100016102 >SUBACK:1 <82090001020B0200016102 >SUBACK:1 >3007000161020B0178 >3007000161020B0278",
    // that of one that was given up
    "server OPEN <CONNECT-NAMED >CONNACK <82090001020B0100016102 >SUBACK:1 <UNSUBSCRIBE:1 >UNSUBACK:1 >3007000161020B0178",
    // that of a shared one
    "server OPEN <CONNECT-NAMED >CONNACK <82120001020B01000A2473686172652F672F6102 >SUBACK:1 >3007000161020B0178",
    // the session goes on
    "server OPEN <CONNECT-KEPT >CONNACK <82090001020B0100016102 >SUBACK:1 CLOSE OPEN <RECONNECT >CONNACK-RESUMED >3007000161020B0178",
    // another identifier, and none matches
    "server OPEN <CONNECT-NAMED >CONNACK <82090001020B0100016102 >SUBACK:1 >3007000162020B0278",
    // sent again
    "server OPEN <CONNECT-NAMED >CONNACK <82090001020B0100016102 >SUBACK:1 >3A090001610001020B0278",
    // after a SUBSCRIBE without filters
    "server OPEN <CONNECT-NAMED >CONNACK <8203000200 <82090001020B0100016102 >SUBACK:1 >3007000161020B0278",
    // one that matches has none
    "server OPEN <CONNECT-NAMED >CONNACK <82090001020B0100016102 >SUBACK:1 <820700020000012302 >900400020002 >PUBLISH0",
    // Subscription Identifier Available is 0
    "server OPEN <CONNECT-NAMED >20050000022900 <82090001020B0100016102 >SUBACK:1 >PUBLISH0",
    // one that was asked for again, without an identifier
    "server OPEN <CONNECT-NAMED >CONNACK <82090001020B0100016102 >SUBACK:1 <SUBSCRIBE:1 >SUBACK:1 >PUBLISH0",
    // Retain As Published 1, and Retain Handling 2
    "server OPEN <CONNECT-NAMED >CONNACK <82070001000001612A >SUBACK:1 >31050001610078",
    // Retain Handling 0 and 1
    "server OPEN <CONNECT-NAMED >CONNACK <SUBSCRIBE:1 >SUBACK:1 >31050001610078",
    "server OPEN <CONNECT-NAMED >CONNACK <820700010000016112 >SUBACK:1 >31050001610078",
    // RETAIN 0
    "server OPEN <CONNECT-NAMED >CONNACK <820700010000016122 >SUBACK:1 >PUBLISH0",
    // a shared one with Retain As Published 1
    "server OPEN <CONNECT-NAMED >CONNACK <8210000100000A2473686172652F672F610A >SUBACK:1 >31050001610078",
    // an ordinary one with Retain Handling 0 beside it
    "server OPEN <CONNECT-NAMED >CONNACK <8210000100000A2473686172652F672F6102 >SUBACK:1 <820700020000016102 >900400020002 >31050001610078",
];

#[test]
fn finds_what_is_delivered_amiss_as_the_plain_evaluators_do(rt: HostRuntime) -> Result<(), Fail> {
    for (rule, position, decided, words) in &BROKEN {
        let found = is_found_broken(rt.alloc(), *rule, *position, *decided, words)?;
        assert!(rt; found, "{words}");
    }
    Ok(())
}

#[test]
fn finds_nothing_amiss_where_it_is_delivered_rightly(rt: HostRuntime) -> Result<(), Fail> {
    for words in &KEPT {
        assert!(rt; is_found_kept(rt.alloc(), words)?, "{words}");
    }
    Ok(())
}
