//! What faults conflict with, in words under their events. These were written from the words of the
//! statements and from `bench/because.py --words`.
use super::harness::is_made_of;
use super::lines::{line_of, role_of};
use mq_display::{Extent, show_faults};
use mq_rules::{Evidence, Fault, FaultKey, Faults, Numbers, Role, Rule};
use std::alloc::Global;
use std::process::Abort;

// A client's log: a connection is opened.
const CLIENT_LOG: &[u8] = b"MQTR\x01\x00\x00\x00\x01\x00\x00\x00\x00";

// The same of a server.
const SERVER_LOG: &[u8] = b"MQTR\x01\x01\x00\x00\x01\x00\x00\x00\x00";

// A fault of this statement at the first event, which shows it.
fn fault_of(alloc: Global, rule: Rule) -> Option<Faults> {
    let mut faults = Faults::new(alloc);
    let fault = Fault {
        decided: 1,
        record_no: 1,
        offset: None,
    };
    faults.add(FaultKey { position: 1, rule }, fault).ok()?;
    Some(faults)
}

// Whether this is what is shown of such a log: its event, and the line on a fault, which ends in
// these words.
fn has_line<'a>(shown: &[u8], line: &'a str, words: &'a str) -> bool {
    is_made_of(shown, &["1 record 1 OPEN\n  fault ", line, words, "\n"])
}

// Whether the line on such a fault ends in these words, after those on its statement.
fn ends_in(alloc: Global, rule: Rule, reasons: &[Evidence], words: &str) -> bool {
    let Some(faults) = fault_of(alloc, rule) else {
        return false;
    };
    let role = role_of(rule);
    let mut log = match role {
        Role::Client => CLIENT_LOG,
        Role::Server => SERVER_LOG,
    };
    let extent = Extent {
        around: None,
        long: false,
    };
    let mut shown = Vec::new(alloc);
    let answer = show_faults(alloc, &faults, reasons, role, extent, &mut log, &mut shown);
    let line = line_of(rule);
    answer.is_ok() && has_line(shown.as_slice(), line, words)
}

// Whether these words are said of a fault of the statement that has this reason.
fn is_said(alloc: Global, rule: Rule, reason: Option<Evidence>, words: &str) -> bool {
    match reason {
        Some(reason) => ends_in(alloc, rule, &[reason], words),
        None => ends_in(alloc, rule, &[], words),
    }
}

// The reason with this event and no numbers.
fn by_event(position: u32) -> Option<Evidence> {
    Some(Evidence {
        because: Some(position),
        numbers: Numbers::Nothing,
    })
}

// The reason with no event and no numbers.
fn by_nothing() -> Option<Evidence> {
    Some(Evidence {
        because: None,
        numbers: Numbers::Nothing,
    })
}

// The reason with these numbers, and an event if there is one.
fn by_numbers(because: Option<u32>, numbers: Numbers) -> Option<Evidence> {
    Some(Evidence { because, numbers })
}

// Whether nothing is said of a fault of the statement, but for the event that it is given.
fn is_at_fault_by_itself(alloc: Global, rule: Rule) -> bool {
    is_said(alloc, rule, by_nothing(), "")
        && is_said(alloc, rule, by_event(7), " (because of event 7)")
}

// Statements on a packet's bytes, and others for which nothing earlier is to blame.
static BY_THEMSELVES: [Rule; 26] = [
    Rule::W01,
    Rule::W02,
    Rule::W03,
    Rule::W04,
    Rule::W05,
    Rule::W06,
    Rule::W07,
    Rule::W08,
    Rule::W09,
    Rule::W10,
    Rule::W11,
    Rule::W12,
    Rule::W13,
    Rule::W14,
    Rule::W15,
    Rule::W16,
    Rule::W17,
    Rule::W18,
    Rule::W19,
    Rule::W20,
    Rule::W21,
    Rule::C01,
    Rule::C09,
    Rule::C18,
    Rule::C19,
    Rule::B08,
];

// Asserts that nothing is said of faults of these.
fn assert_by_themselves(rt: &(impl Abort + AllocGlobal), rules: &[Rule]) {
    for rule in rules {
        assert!(rt; is_at_fault_by_itself(rt.alloc(), *rule), "{rule:?}");
    }
}

#[test]
fn nothing_is_said_of_what_is_at_fault_by_itself(rt: HostRuntime) {
    assert_by_themselves(&rt, &BY_THEMSELVES);
}

// A statement, and the words on a fault of it.
type Said = (Rule, &'static str);

// Asserts that the words of each row are said of a fault of its statement that has this reason.
fn assert_said(rt: &(impl Abort + AllocGlobal), rows: &[Said], reason: Option<Evidence>) {
    for (rule, words) in rows {
        assert!(rt; is_said(rt.alloc(), *rule, reason, words), "{words}");
    }
}

// What is said of event 2, on a connection.
static ON_CONNECTIONS: [Said; 11] = [
    (Rule::C03, " (because of event 2: the first CONNECT)"),
    (Rule::C06, " (because of event 2: the first CONNACK)"),
    (
        Rule::C07,
        " (because of event 2: the CONNECT, with Clean Start 1)",
    ),
    (
        Rule::C08,
        " (because of event 2: the last CONNACK that accepted, whose session has ended)",
    ),
    (
        Rule::C10,
        " (because of event 2: the CONNECT, with an empty Client Identifier)",
    ),
    (Rule::C11, " (because of event 2: the DISCONNECT)"),
    (Rule::C12, " (because of event 2: the CONNACK that refuses)"),
    (
        Rule::C13,
        " (because of event 2: the CONNACK, with Session Present 1)",
    ),
    (
        Rule::C21,
        " (because of event 2: the CONNECT, with Request Problem Information 0)",
    ),
    (
        Rule::C22,
        " (because of event 2: the CONNECT, without Request Response Information 1)",
    ),
    (
        Rule::C23,
        " (because of event 2: it had to close after that)",
    ),
];

#[test]
fn says_what_the_event_is_on_a_connection(rt: HostRuntime) {
    assert_said(&rt, &ON_CONNECTIONS, by_event(2));
}

// What is said of event 40, in a session.
static IN_SESSIONS: [Said; 16] = [
    (Rule::S01, " (because of event 40: it holds the identifier)"),
    (
        Rule::S02,
        " (because of event 40: the exchange was over with it)",
    ),
    (
        Rule::S03,
        " (because of event 40: the PUBLISH before, on this connection)",
    ),
    (Rule::S04, " (because of event 40: the PUBREL)"),
    (
        Rule::S06,
        " (because of event 40: the CONNACK that resumed the session)",
    ),
    (
        Rule::L1,
        " (because of event 40: the exchange was over with it)",
    ),
    (Rule::L2, " (because of event 40: the RELEASE before)"),
    (
        Rule::L3,
        " (because of event 40: the PUBLISH that brought it, and wasn't released)",
    ),
    (
        Rule::B05,
        " (because of event 40: the SUBSCRIBE, which asks for less)",
    ),
    (
        Rule::B06,
        " (because of event 40: the UNSUBSCRIBE, for a filter that was subscribed)",
    ),
    (
        Rule::B07,
        " (because of event 40: the UNSUBSCRIBE, for a filter that was never subscribed)",
    ),
    (
        Rule::B09,
        " (because of event 40: the SUBSCRIBE that matches)",
    ),
    (
        Rule::P01,
        " (because of event 40: the SUBSCRIBE that matches)",
    ),
    (
        Rule::P02,
        " (because of event 40: the SUBSCRIBE that matches)",
    ),
    (
        Rule::R01,
        " (because of event 40: the SUBSCRIBE that matches)",
    ),
    (
        Rule::R02,
        " (because of event 40: the SUBSCRIBE that matches)",
    ),
];

#[test]
fn says_what_the_event_is_in_a_session(rt: HostRuntime) {
    assert_said(&rt, &IN_SESSIONS, by_event(40));
}

// Whether these words are said of a fault of each of these statements, because of event 5.
fn are_said(alloc: Global, rules: &[Rule], words: &str) -> bool {
    for rule in rules {
        if !is_said(alloc, *rule, by_event(5), words) {
            return false;
        }
    }
    true
}

#[rattlefmt::skip]
const ANSWERS: [Rule; 6] = [Rule::E1A, Rule::E2A, Rule::E3A, Rule::E4A, Rule::E5A, Rule::E6A];

#[rattlefmt::skip]
const ANSWERED: [Rule; 6] = [Rule::E1R, Rule::E2R, Rule::E3R, Rule::E4R, Rule::E5R, Rule::E6R];

const ORDERED: [Rule; 3] = [Rule::E1O, Rule::E2O, Rule::E3O];

#[test]
#[rattlefmt::skip]
fn says_what_the_event_is_to_an_exchange(rt: HostRuntime) {
    assert!(rt; are_said(rt.alloc(), &ANSWERS, " (because of event 5: nothing asked for it after that)"));
    assert!(rt; are_said(rt.alloc(), &ANSWERED, " (because of event 5: the REST, with no answer before it)"));
    assert!(rt; are_said(rt.alloc(), &ORDERED, " (because of event 5: it came first, and waits for its answer)"));
}

// A statement, the numbers that it compares, and the words on a fault of it.
type Compared = (Rule, Numbers, &'static str);

// Asserts that the words of each row are said of a fault with its numbers, and this event.
fn assert_compared(rt: &(impl Abort + AllocGlobal), rows: &[Compared], because: Option<u32>) {
    for (rule, numbers, words) in rows {
        let reason = by_numbers(because, *numbers);
        assert!(rt; is_said(rt.alloc(), *rule, reason, words), "{words}");
    }
}

// What is said of numbers, and of event 3.
static COMPARED: [Compared; 12] = [
    (
        Rule::C14,
        Numbers::Two(300, 128),
        " (because of event 3: 300 bytes, at most 128 allowed)",
    ),
    (
        Rule::C15,
        Numbers::Two(6, 5),
        " (because of event 3: Topic Alias 6, at most 5 allowed)",
    ),
    (
        Rule::C17,
        Numbers::Two(2, 1),
        " (because of event 3: QoS 2, at most 1 allowed)",
    ),
    (
        Rule::C20,
        Numbers::One(60),
        " (because of event 3: the CONNECT, with Session Expiry Interval 0 or none, and here 60 seconds)",
    ),
    (
        Rule::S05,
        Numbers::Two(6, 5),
        " (because of event 3: first sent as event 6, and this one as event 5 before it)",
    ),
    (
        Rule::S07,
        Numbers::Two(11, 10),
        " (because of event 3: 11 in flight, at most 10 allowed)",
    ),
    (
        Rule::E7R,
        Numbers::Two(2, 1),
        " (because of event 3: 2 asked, 1 answered)",
    ),
    (
        Rule::B02,
        Numbers::Two(2, 0),
        " (because of event 3: QoS 2, at most 0 granted)",
    ),
    (
        Rule::B03,
        Numbers::Two(3, 2),
        " (because of event 3: 3 filters, 2 Reason Codes)",
    ),
    (
        Rule::B04,
        Numbers::Two(3, 2),
        " (because of event 3: 3 filters, 2 Reason Codes)",
    ),
    (
        Rule::K01,
        Numbers::Two(13_600_000, 13_500_000),
        " (because of event 3: nothing came from the client for 13600000 microseconds, and the limit is 13500000)",
    ),
    (
        Rule::K02,
        Numbers::Two(18_446_744_073_709_551_615, 6_500_000),
        " (because of event 3: nothing came from the client for 18446744073709551615 microseconds, and the limit is 6500000)",
    ),
];

#[test]
fn says_what_the_numbers_are(rt: HostRuntime) {
    assert_compared(&rt, &COMPARED, Some(3));
}

// What is said where there is no event.
static MISSING: [Said; 12] = [
    (Rule::C02, " (no CONNECT was sent before)"),
    (Rule::C04, " (no CONNECT was received before)"),
    (Rule::C05, " (no CONNACK was sent before)"),
    (Rule::C08, " (no session was begun)"),
    (Rule::S02, " (never sent in this session)"),
    (Rule::E1A, " (never asked for in this session)"),
    (Rule::E2A, " (never asked for in this session)"),
    (Rule::E3A, " (never asked for in this session)"),
    (Rule::E4A, " (never asked for in this session)"),
    (Rule::E5A, " (never asked for in this session)"),
    (Rule::E6A, " (never asked for in this session)"),
    (Rule::L1, " (never received in this session)"),
];

#[test]
fn says_what_never_came(rt: HostRuntime) {
    assert_said(&rt, &MISSING, by_nothing());
}

// What is said of numbers, without an event.
static COMPARED_ALONE: [Compared; 4] = [
    (
        Rule::C15,
        Numbers::Two(1, 0),
        " (Topic Alias 1, at most 0 allowed by default)",
    ),
    (
        Rule::C16,
        Numbers::One(9),
        " (Topic Alias 9 wasn't set on this connection)",
    ),
    (
        Rule::S07,
        Numbers::Two(65536, 65535),
        " (65536 in flight, at most 65535 allowed by default)",
    ),
    (
        Rule::B01,
        Numbers::One(0),
        " (0 filters stand, and none matches)",
    ),
];

#[test]
fn says_what_the_numbers_are_without_an_event(rt: HostRuntime) {
    assert_compared(&rt, &COMPARED_ALONE, None);
}

// Reasons with an event, if there is one, and numbers that their statement doesn't compare; and
// what is said of them.
static NOT_COMPARED: [(Rule, Option<u32>, Numbers, &str); 7] = [
    (
        Rule::S07,
        Some(3),
        Numbers::Nothing,
        " (because of event 3)",
    ),
    (Rule::S07, None, Numbers::Nothing, ""),
    (
        Rule::S07,
        Some(3),
        Numbers::One(11),
        " (because of event 3)",
    ),
    (
        Rule::S01,
        Some(3),
        Numbers::Two(11, 10),
        " (because of event 3)",
    ),
    (Rule::C14, None, Numbers::Two(11, 10), ""),
    (Rule::C20, None, Numbers::One(60), ""),
    (Rule::S01, None, Numbers::Nothing, ""),
];

// What a statement's evidence never has is left out.
#[test]
fn numbers_that_are_not_compared_are_left_out(rt: HostRuntime) {
    for (rule, because, numbers, words) in &NOT_COMPARED {
        let reason = by_numbers(*because, *numbers);
        assert!(rt;
            is_said(rt.alloc(), *rule, reason, words),
            "{rule:?} {words}"
        );
    }
    assert!(rt; is_said(rt.alloc(), Rule::S02, None, ""));
}

#[test]
fn the_largest_numbers_are_said(rt: HostRuntime) {
    let words =
        " (because of event 4294967295: first sent as event 18446744073709551615, and this one as event 18446744073709551614 before it)";
    let numbers = Numbers::Two(u64::MAX, u64::MAX - 1);
    assert!(rt;
        is_said(
            rt.alloc(),
            Rule::S05,
            by_numbers(Some(u32::MAX), numbers),
            words
        )
    );
}

// A server's log: twice a connection is opened and closed.
const LOG: &[u8] = b"MQTR\x01\x01\x01\x00\
    \x01\x00\x00\x00\x00\x04\x00\x00\x00\x00\x01\x00\x00\x00\x00\x04\x00\x00\x00\x00";

// The faults of these statements at these positions, each decided at the next event.
fn faults_of(alloc: Global, found: &[(u32, Rule)]) -> Option<Faults> {
    let mut faults = Faults::new(alloc);
    for (position, rule) in found {
        let key = FaultKey {
            position: *position,
            rule: *rule,
        };
        let fault = Fault {
            decided: position.saturating_add(1),
            record_no: *position,
            offset: None,
        };
        faults.add(key, fault).ok()?;
    }
    Some(faults)
}

// Whether the log is shown so with these faults and reasons.
fn is_shown(
    alloc: Global,
    found: &[(u32, Rule)],
    reasons: &[Evidence],
    around: Option<u32>,
    text: &str,
) -> bool {
    let Some(faults) = faults_of(alloc, found) else {
        return false;
    };
    let extent = Extent {
        around,
        long: false,
    };
    let mut log = LOG;
    let mut shown = Vec::new(alloc);
    let answer = show_faults(
        alloc,
        &faults,
        reasons,
        Role::Server,
        extent,
        &mut log,
        &mut shown,
    );
    answer.is_ok() && shown.as_slice() == text.as_bytes()
}

const FOUND: [(u32, Rule); 4] = [
    (1, Rule::S01),
    (1, Rule::L1),
    (4, Rule::C06),
    (4, Rule::C16),
];

const REASONS: [Evidence; 4] = [
    Evidence {
        because: Some(11),
        numbers: Numbers::Nothing,
    },
    Evidence {
        because: None,
        numbers: Numbers::Nothing,
    },
    Evidence {
        because: Some(33),
        numbers: Numbers::Nothing,
    },
    Evidence {
        because: None,
        numbers: Numbers::One(44),
    },
];

#[test]
fn each_fault_has_its_own_reason(rt: HostRuntime) {
    let text = "1 record 1 OPEN\n\
        \x20 fault S01 MQTT-2.2.1-4 A new PUBLISH, SUBSCRIBE or UNSUBSCRIBE takes no Packet Identifier that is in use. (because of event 11: it holds the identifier) (decided at event 2)\n\
        \x20 fault L1 sec-4.3.3 Only a QoS 2 message that was received, and whose exchange isn't over, is released. (never received in this session) (decided at event 2)\n\
        ..\n\
        4 record 4 CLOSE\n\
        \x20 fault C06 MQTT-3.2.0-2 A server sends only one CONNACK on a connection. (because of event 33: the first CONNACK) (decided at event 5)\n\
        \x20 fault C16 sec-3.3.2 A Topic Alias that stands for a Topic Name was set on this connection. (Topic Alias 44 wasn't set on this connection) (decided at event 5)\n";
    assert!(rt; is_shown(rt.alloc(), &FOUND, &REASONS, Some(0), text));
}

#[test]
fn a_fault_beyond_the_reasons_has_no_words(rt: HostRuntime) {
    let text = "1 record 1 OPEN\n\
        \x20 fault S01 MQTT-2.2.1-4 A new PUBLISH, SUBSCRIBE or UNSUBSCRIBE takes no Packet Identifier that is in use. (because of event 11: it holds the identifier) (decided at event 2)\n\
        2 record 2 CLOSE\n\
        \x20 fault L1 sec-4.3.3 Only a QoS 2 message that was received, and whose exchange isn't over, is released. (decided at event 3)\n\
        3 record 3 OPEN\n\
        4 record 4 CLOSE\n";
    let found = [(1, Rule::S01), (2, Rule::L1)];
    assert!(rt; is_shown(rt.alloc(), &found, &REASONS[..1], None, text));
}

// No event has these positions, but the reasons are counted from the first fault on.
#[test]
fn reasons_of_faults_at_no_event_are_passed(rt: HostRuntime) {
    let text = "..\n\
        3 record 3 OPEN\n\
        \x20 fault L1 sec-4.3.3 Only a QoS 2 message that was received, and whose exchange isn't over, is released. (because of event 33: the exchange was over with it) (decided at event 4)\n\
        ..\n";
    let found = [(0, Rule::S01), (0, Rule::L1), (3, Rule::L1), (9, Rule::L1)];
    assert!(rt; is_shown(rt.alloc(), &found, &REASONS, Some(0), text));
}
