//! What no clause says of the texts on the statements.
use mq_explain::explanation;
use mq_rules::{Role, Rule};

// Whether these are the citations of a statement, for both ends.
fn are_citations(rule: Rule, citations: &str) -> bool {
    citations.contains(rule.citation(Role::Client))
        && citations.contains(rule.citation(Role::Server))
}

// Whether a statement's text begins with its code and citations, and has its sentence next.
fn has_head(rule: Rule, text: &str) -> bool {
    let mut words = text.split_whitespace();
    if words.next() != Some(rule.code()) {
        return false;
    }
    words.next();
    if !are_citations(rule, words.next().unwrap_or("")) {
        return false;
    }
    for word in rule.sentence().split_whitespace() {
        if words.next() != Some(word) {
            return false;
        }
    }
    true
}

// Whether a text says why, where its statement is judged and what puts it to the test, and has no
// line of more than 80 bytes.
fn has_parts(text: &str) -> bool {
    text.contains("\n\nWhy: ")
        && text.contains("\n\nJudged: ")
        && text.contains("\n\nTo see it tested: ")
        && text.lines().all(|line| line.len() <= 80)
}

// Whether a statement has such a text.
fn is_explained(rule: Rule) -> bool {
    let text = explanation(rule);
    has_head(rule, text) && has_parts(text)
}

#[test]
fn explains_each_statement(rt: HostRuntime) {
    for rule in Rule::all() {
        assert!(rt; is_explained(*rule), "{rule:?}");
    }
}

// Whether a statement's text says by which option it is judged, if that isn't always done.
fn says_how_it_is_asked_for(rule: Rule) -> bool {
    let text = explanation(rule);
    let is_on_request = rule.is_further() && !rule.is_on_times();
    text.contains("--all") == is_on_request && text.contains("--times") == rule.is_on_times()
}

#[test]
fn says_how_further_statements_are_asked_for(rt: HostRuntime) {
    for rule in Rule::all() {
        assert!(rt; says_how_it_is_asked_for(*rule), "{rule:?}");
    }
}

// Two ends of a connection that is silent for too long.
#[test]
fn explains_the_keep_alive_to_both_ends(rt: HostRuntime) {
    let client =
        "K01 client MQTT-3.1.2-20,MQTT-3.2.2-21\nA client isn't silent for longer than the Keep Alive.\n\nWhy: ";
    let server =
        "K02 server MQTT-3.1.2-22,MQTT-3.2.2-22\nA server closes the connection of a client that is silent.\n\nWhy: ";
    assert!(rt; explanation(Rule::K01).starts_with(client));
    assert!(rt; explanation(Rule::K02).starts_with(server));
}

// Two statements on the same Reason Codes.
#[test]
fn explains_what_an_unsuback_may_say(rt: HostRuntime) {
    let denied =
        "B06 server MQTT-3.10.4-1\nNo UNSUBACK says of a subscription that it doesn't exist.\n\nWhy: ";
    let deleted =
        "B07 server sec-3.11.3\nNo UNSUBACK says that a filter was deleted which was never subscribed.\n\nWhy: ";
    assert!(rt; explanation(Rule::B06).starts_with(denied));
    assert!(rt; explanation(Rule::B07).starts_with(deleted));
}

// Statements on one PUBLISH: on its topic, its QoS, its Subscription Identifiers and its RETAIN.
static OF_DELIVERIES: [(Rule, &str); 6] = [
    (
        Rule::B08,
        "B08 server MQTT-3.3.2-3\nA PUBLISH from the server matches a subscription, where some are shared.\n\nWhy: ",
    ),
    (
        Rule::B09,
        "B09 server MQTT-3.8.4-8,MQTT-4.8.2-3\nA PUBLISH isn't at a QoS above what was granted, where some are shared.\n\nWhy: ",
    ),
    (
        Rule::P01,
        "P01 server sec-3.3.4\nA Subscription Identifier of a PUBLISH is that of a matching subscription.\n\nWhy: ",
    ),
    (
        Rule::P02,
        "P02 server MQTT-3.3.4-3\nA PUBLISH has a Subscription Identifier, if each matching subscription has.\n\nWhy: ",
    ),
    (
        Rule::R01,
        "R01 server MQTT-3.3.1-11,MQTT-3.3.1-12\nRETAIN is 0 where no matching subscription asks for anything else.\n\nWhy: ",
    ),
    (
        Rule::R02,
        "R02 server sec-4.8.2\nNo retained message is sent for a shared subscription.\n\nWhy: ",
    ),
];

#[test]
fn explains_what_is_delivered(rt: HostRuntime) {
    for (rule, start) in &OF_DELIVERIES {
        assert!(rt; explanation(*rule).starts_with(*start), "{rule:?}");
    }
}

// Two statements that are easily taken for one another.
#[test]
fn explains_resends_on_a_connection_and_after_a_pubrel(rt: HostRuntime) {
    let same = "S03 both MQTT-4.4.0-1\nA PUBLISH isn't sent again on the same connection.\n\nWhy: ";
    let later =
        "S04 both MQTT-4.3.3-6\nA PUBLISH isn't sent again once its PUBREL was sent.\n\nWhy: ";
    assert!(rt; explanation(Rule::S03).starts_with(same));
    assert!(rt; explanation(Rule::S04).starts_with(later));
}
