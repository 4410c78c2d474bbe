//! What a server may deliver: topics that were subscribed to, at no more than the QoS that was
//! granted (MQTT 5.0, sections 3.3.1.2, 3.8.4 and 4.7).
ghost use Rattle.std.specs.Prelude.{◌≡◌, ◌&&◌, ◌==◌, nat_le, not, Some, length, option_map, reverse, unwrap_or, []};
ghost use Rattle.std.specs.List.{list_any};
ghost use Rattle.std.specs.Option.{option_and_then};
ghost use Rattle.mq_topic.specs.Matching.{matches as is_match};
ghost use Rattle.mq_rules.specs.Words.{is_id, is_some_and, only};
ghost use Rattle.mq_rules.specs.declared.note.Seen.{Seen};
ghost use Rattle.mq_rules.specs.Notes.{grant_in, qos_number as number_of, received_subscription, subscription_in};
ghost use Rattle.mq_rules.specs.Moments.{newest, some};
ghost use Rattle.mq_rules.specs.Connections.{accepted, connection, session};
ghost use Rattle.mq_rules.specs.Subscriptions.{asks_to_share, breaks_B01, breaks_B02, codes_under, granted, is_shared as begins_shared, last_set, standing_at, topic_set as set_topic};
ghost use Rattle.mq_plain.specs.Deliveries.{allows, allows_by, codes_ahead, first_code, judged_topic as topic_judged, other_codes, subscribes_to, topic_after};

use crate::judging::SessionStatement;
use crate::session::{begins_at, fate_before, is_accepted};
use mq_rules::{
    Fate, Memory, Note, NotedFilter, PacketFields, PublishNote, Role, Rule, Seen, qos_number,
};
use mq_topic::matches;
use std::alloc::Global;

/// The lowest Reason Code that refuses (MQTT 5.0, section 2.4).
pub const REFUSING: u8 = 0x80;

// ---- topics

// Whether a PUBLISH sets its Topic Name for this alias (MQTT 5.0, section 3.3.2.3.4).
fn sets_alias(alias: u16, publish: &PublishNote) -> bool
    ensures { result ≡ is_id alias (only (not (length publish.now.topic == 0)) publish.now.topic_alias) }
{
    !publish.topic.is_empty() && publish.topic_alias == Some(alias)
}

// The Topic Name that an event sets for this alias.
fn topic_set(alias: u16, note: &Note) -> Option<&str>
    ensures { option_map (λ topic. topic.now) result ≡ set_topic alias note.now }
{
    match note.sent_publish() {
        Some(publish) if sets_alias(alias, publish) => Some(publish.topic.as_str()),
        _ => None,
    }
}

// The Topic Name that was last set for this alias on the latest connection.
fn last_topic(alias: u16, before: &[Seen]) -> Option<&str>
    ensures { option_map (λ topic. topic.now) result ≡ last_set alias (connection (reverse before.now)) }
{
    let mut earlier = before;
    while let Some((event, rest)) = earlier.split_last() {
        if let Some(topic) = topic_set(alias, &event.note) {
            return Some(topic);
        }
        if event.note.is_open() {
            return None;
        }
        earlier = rest;
    }
    None
}

/// The topic of a PUBLISH that has these events before it: its Topic Name, or if that is empty the
/// one that was last set for its Topic Alias on the connection.
pub fn topic_of<'a>(publish: &'a PublishNote, before: &'a [Seen]) -> Option<&'a str>
    ensures { option_map (λ topic. topic.now) result ≡ topic_after (reverse before.now) publish.now }
{
    if !publish.topic.is_empty() {
        return Some(publish.topic.as_str());
    }
    match publish.topic_alias {
        Some(alias) => last_topic(alias, before),
        None => None,
    }
}

// ---- shared subscriptions

// Whether a filter asks for a shared subscription (MQTT 5.0, section 4.8.2).
fn is_shared(filter: &NotedFilter) -> bool
    ensures { result ≡ begins_shared filter.now }
{
    filter.filter.as_str().starts_with("$share/")
}

// Whether a SUBSCRIBE asks for a shared subscription.
fn has_shared(fields: &PacketFields) -> bool
    ensures { result ≡ is_some_and (λ s. list_any begins_shared s.filters) (subscription_in fields.now) }
{
    match fields {
        PacketFields::Subscribe { filters, .. } => any_shared(filters.as_slice()),
        _ => false,
    }
}

// Whether any of a SUBSCRIBE's filters asks for a shared subscription.
fn any_shared(filters: &[NotedFilter]) -> bool
    ensures { result ≡ list_any begins_shared filters.now }
{
    filters.iter().any(|filter| is_shared(filter))
}

// Whether an event is a SUBSCRIBE that is received and asks for a shared subscription.
fn asks_for_shared(note: &Note) -> bool
    ensures { result ≡ is_some_and (λ s. list_any begins_shared s.filters) (received_subscription note.now) }
{
    match note.received_fields() {
        Some(fields) => has_shared(fields),
        None => false,
    }
}

// Whether an event on a connection with this fate is such a SUBSCRIBE, and the connection is
// accepted.
fn asks_for_shared_at(fate: Option<Fate>, note: &Note) -> bool
    ensures { result ≡ (accepted fate && is_some_and (λ s. list_any begins_shared s.filters) (received_subscription note.now)) }
{
    is_accepted(fate) && asks_for_shared(note)
}

/// Whether a shared subscription was asked for in the current session after these events, if the
/// latest connection is accepted with this fate.
pub fn is_sharing(role: Role, fate: Fate, before: &[Seen]) -> bool
    ensures { result ≡ some asks_to_share (session role (Some fate) (reverse before.now)) }
{
    let mut earlier = before;
    let mut fate = Some(fate);
    while let Some((event, rest)) = earlier.split_last() {
        if asks_for_shared_at(fate, &event.note) {
            return true;
        }
        if begins_at(fate, &event.note) {
            return false;
        }
        fate = fate_before(role, fate, &event.note, rest);
        earlier = rest;
    }
    false
}

// ---- the standing filters of a SUBSCRIBE

// Whether a filter of a SUBSCRIBE is granted, matches the topic and has at least this ceiling,
// given its Reason Code if there is one (MQTT 5.0, section 3.9.3).
fn allows_topic(topic: &str, least: u8, filter: &NotedFilter, code: Option<u8>) -> bool
    ensures { result ≡ allows_by topic.now least filter.now code }
{
    match code {
        Some(code) => code < REFUSING && has_ceiling(topic, least, filter, code),
        None => has_ceiling(topic, least, filter, filter.options % 4),
    }
}

// Whether the filter matches the topic, and this ceiling is at least the least one.
fn has_ceiling(topic: &str, least: u8, filter: &NotedFilter, ceiling: u8) -> bool
    ensures { result ≡ (is_match filter.now.filter topic.now && nat_le least ceiling) }
{
    least <= ceiling && matches(filter.filter.as_str(), topic)
}

/// The first of the Reason Codes that are left, if there is one, and the others.
pub fn next_code(codes: &[u8]) -> (Option<u8>, &[u8])
    ensures first { result.0 ≡ first_code codes.now }
    ensures others { result.1.now ≡ other_codes codes.now }
{
    match codes.split_first() {
        Some((code, others)) => (Some(*code), others),
        None => (None, codes),
    }
}

// Whether one of these filters is granted and allows the topic, given the Reason Codes of the
// SUBACK.
fn any_allows(topic: &str, least: u8, filters: &[NotedFilter], codes: &[u8]) -> bool
    ensures { result ≡ list_any (allows topic.now least) (granted filters.now codes.now) }
{
    let mut filters = filters;
    let mut codes = codes;
    while let Some((filter, next_filters)) = filters.split_first() {
        let (code, next_codes) = next_code(codes);
        if allows_topic(topic, least, filter, code) {
            return true;
        }
        filters = next_filters;
        codes = next_codes;
    }
    false
}

// The Reason Codes of a SUBACK that an event sends under this identifier.
fn sent_codes(identifier: u16, note: &Note) -> Option<&[u8]>
    ensures { option_map (λ codes. codes.now) result ≡ codes_under identifier note.now }
{
    match note.sent_fields() {
        Some(fields) => codes_in(identifier, fields),
        None => None,
    }
}

// The Reason Codes of a packet, if it is a SUBACK under this identifier.
fn codes_in(identifier: u16, fields: &PacketFields) -> Option<&[u8]>
    ensures { option_map (λ codes. codes.now) result ≡ option_map (λ a. a.codes) (option_and_then (λ a. only (a.identifier == identifier) (Some a)) (grant_in fields.now)) }
{
    match fields {
        PacketFields::Suback {
            identifier: own,
            codes,
        } if *own == identifier => Some(codes.as_slice()),
        _ => None,
    }
}

// The Reason Codes of the SUBACK that answers a SUBSCRIBE under this identifier, given the events
// after it. Empty if it wasn't sent on the connection.
fn codes_after(identifier: u16, later: &[Seen]) -> &[u8]
    ensures { result.now ≡ unwrap_or (codes_ahead identifier later.now) [] }
{
    for event in later {
        if event.note.is_open() {
            return &[];
        }
        if let Some(codes) = sent_codes(identifier, &event.note) {
            return codes;
        }
    }
    &[]
}

// Whether an event is a SUBSCRIBE that was received, and one of its standing filters allows the
// topic, given the events after it.
fn subscribes(topic: &str, least: u8, note: &Note, later: &[Seen]) -> bool
    ensures { result ≡ subscribes_to topic.now least later.now note.now }
{
    match note.received_fields() {
        Some(fields) => subscribes_in(topic, least, fields, later),
        None => false,
    }
}

// Whether a packet that was received is a SUBSCRIBE, and one of its standing filters allows the
// topic, given the events after it.
fn subscribes_in(topic: &str, least: u8, fields: &PacketFields, later: &[Seen]) -> bool
    ensures { result ≡ is_some_and (λ s. list_any (allows topic.now least) (granted s.filters (unwrap_or (codes_ahead s.identifier later.now) []))) (subscription_in fields.now) }
{
    match fields {
        PacketFields::Subscribe {
            identifier,
            filters,
            ..
        } => any_allows(
            topic,
            least,
            filters.as_slice(),
            codes_after(*identifier, later),
        ),
        _ => false,
    }
}

// ---- the standing filters of the session

// Whether an event on a connection with this fate is such a SUBSCRIBE, and the connection is
// accepted.
fn subscribes_at(fate: Option<Fate>, topic: &str, least: u8, note: &Note, later: &[Seen]) -> bool
    ensures { result ≡ (accepted fate && subscribes_to topic.now least later.now note.now) }
{
    is_accepted(fate) && subscribes(topic, least, note, later)
}

// Whether after these events some standing filter matches the topic and has at least this ceiling,
// if the latest connection is accepted with this fate.
fn is_allowed(role: Role, fate: Fate, topic: &str, least: u8, before: &[Seen]) -> bool
    ensures { (e : Seen) → result ≡ list_any (allows topic.now least) (standing_at role fate (newest e (reverse before.now))) }
{
    let mut earlier = before;
    let mut fate = Some(fate);
    while let Some((event, rest)) = earlier.split_last() {
        let later = &before[earlier.len()..];
        if subscribes_at(fate, topic, least, &event.note, later) {
            return true;
        }
        if begins_at(fate, &event.note) {
            return false;
        }
        fate = fate_before(role, fate, &event.note, rest);
        earlier = rest;
    }
    false
}

// ---- the statements

// The topic of a PUBLISH with these events before it, if B01 and B02 look at it: its DUP is 0, and
// no shared subscription was asked for in its session, which is that of the latest connection,
// accepted with this fate.
fn judged_topic<'a>(
    role: Role,
    fate: Fate,
    publish: &'a PublishNote,
    before: &'a [Seen],
) -> Option<&'a str>
    ensures { option_map (λ topic. topic.now) result ≡ topic_judged role fate (reverse before.now) publish.now }
{
    if publish.duplicate {
        return None;
    }
    if is_sharing(role, fate, before) {
        return None;
    }
    topic_of(publish, before)
}

// Whether no standing filter matches the topic of a PUBLISH that has these events before it.
fn is_unasked(role: Role, fate: Fate, publish: &PublishNote, before: &[Seen]) -> bool
    ensures { (e : Seen) → result ≡ is_some_and (λ topic. not (list_any (allows topic 0) (standing_at role fate (newest e (reverse before.now))))) (topic_judged role fate (reverse before.now) publish.now) }
{
    match judged_topic(role, fate, publish, before) {
        Some(topic) => !is_allowed(role, fate, topic, 0, before),
        None => false,
    }
}

// Whether an event sends a message to which nobody subscribed.
fn delivers_unasked(role: Role, fate: Fate, event: &Seen, before: &[Seen]) -> bool
    ensures { result ≡ breaks_B01 role fate (newest event.now (reverse before.now)) }
{
    match event.note.sent_publish() {
        Some(publish) => is_unasked(role, fate, publish, before),
        None => false,
    }
}

/// B01: a server sends a PUBLISH with DUP 0 only for a topic that a standing filter of the session
/// matches.
pub struct AskedTopics;

impl SessionStatement for AskedTopics {
    ghost use Rattle.std.specs.Prelude.{refl};
    ghost use Rattle.mq_rules.specs.declared.rule.Rule.TheVariants.{B01};
    ghost use Rattle.mq_rules.specs.Subscriptions.{breaks_B01};

    ghost judged = { B01 };

    ghost breaks = { breaks_B01 };

    fn rule() -> Rule {
        Rule::B01
    }

    fn is_broken(
        _alloc: Global,
        role: Role,
        fate: Fate,
        event: &Seen,
        before: &[Seen],
    ) -> Result<bool, Memory> {
        Ok(delivers_unasked(role, fate, event, before))
    }

    ghost says = { λ role. refl };
}

// Whether standing filters match a topic, and none of them has a ceiling of at least this QoS.
fn is_above(role: Role, fate: Fate, topic: &str, qos: u8, before: &[Seen]) -> bool
    ensures { (e : Seen) → result ≡ (list_any (allows topic.now 0) (standing_at role fate (newest e (reverse before.now))) && not (list_any (allows topic.now qos) (standing_at role fate (newest e (reverse before.now))))) }
{
    is_allowed(role, fate, topic, 0, before) && !is_allowed(role, fate, topic, qos, before)
}

// Whether standing filters match the topic of a PUBLISH that has these events before it, and none
// of them has a ceiling of at least its QoS.
fn is_above_granted(role: Role, fate: Fate, publish: &PublishNote, before: &[Seen]) -> bool
    ensures { (e : Seen) → result ≡ is_some_and (λ topic. list_any (allows topic 0) (standing_at role fate (newest e (reverse before.now))) && not (list_any (allows topic (number_of publish.now.qos)) (standing_at role fate (newest e (reverse before.now))))) (topic_judged role fate (reverse before.now) publish.now) }
{
    match judged_topic(role, fate, publish, before) {
        Some(topic) => is_above(role, fate, topic, qos_number(publish.qos), before),
        None => false,
    }
}

// Whether an event sends a message at a higher QoS than the matching subscriptions were granted.
fn delivers_above(role: Role, fate: Fate, event: &Seen, before: &[Seen]) -> bool
    ensures { result ≡ breaks_B02 role fate (newest event.now (reverse before.now)) }
{
    match event.note.sent_publish() {
        Some(publish) => is_above_granted(role, fate, publish, before),
        None => false,
    }
}

/// B02: a server sends a PUBLISH with DUP 0 at no higher QoS than some matching subscription was
/// granted.
pub struct GrantedQos;

impl SessionStatement for GrantedQos {
    ghost use Rattle.std.specs.Prelude.{refl};
    ghost use Rattle.mq_rules.specs.declared.rule.Rule.TheVariants.{B02};
    ghost use Rattle.mq_rules.specs.Subscriptions.{breaks_B02};

    ghost judged = { B02 };

    ghost breaks = { breaks_B02 };

    fn rule() -> Rule {
        Rule::B02
    }

    fn is_broken(
        _alloc: Global,
        role: Role,
        fate: Fate,
        event: &Seen,
        before: &[Seen],
    ) -> Result<bool, Memory> {
        Ok(delivers_above(role, fate, event, before))
    }

    ghost says = { λ role. refl };
}
