//! Which subscriptions of a session match a topic, also shared ones, and what they ask for (MQTT
//! 5.0, sections 3.8.3.1, 3.8.4 and 4.8.2).
ghost use Rattle.std.specs.Prelude.{◌≡◌, reverse};
ghost use Rattle.std.specs.List.{after_first, list_any};
ghost use Rattle.mq_rules.specs.Wishes as wishes;
ghost use Rattle.mq_rules.specs.MatchingSubscriptions as subscriptions;
ghost use Rattle.mq_plain.specs.Finding.{moment_of};
ghost use Rattle.mq_plain.specs.Matching as matching;

use crate::deliveries::{REFUSING, next_code};
use crate::earliest::Found;
use crate::further::answering::codes_answering;
use crate::further::moments::{MomentTest, some_moment_in_session};
use mq_rules::{Fate, NotedFilter, PacketFields, Role, Seen};
use mq_topic::matches;

/// The Retain Handling of a subscription for which no retained messages are sent at the time of the
/// SUBSCRIBE.
const SENDS_NONE: u8 = 2;

/// A subscription.
#[derive(Clone, Copy)]
pub struct Subscription<'a> {
    /// The Topic Filter, as the SUBSCRIBE has it.
    filter: &'a str,
    /// Whether it is shared.
    is_shared: bool,
    /// Its Subscription Options.
    options: u8,
    /// The greatest QoS of what may be sent for it, 0 to 2.
    ceiling: u8,
    /// The Subscription Identifier of its SUBSCRIBE, if that has one.
    identifier: Option<u32>,
}

/// Kinds of subscriptions.
#[derive(Clone, Copy)]
pub enum Kind {
    /// Each of them.
    Any,
    /// Those for which a message of this QoS may be sent.
    Granted(u8),
    /// Those with this Subscription Identifier.
    Named(u32),
    /// Those without one.
    Unidentified,
    /// Those for which what is sent may have RETAIN 1.
    Retained,
    /// Shared ones that ask for retained messages, which aren't sent for them.
    InVain,
}

// ---- one subscription

// Whether a filter asks for a shared subscription (MQTT 5.0, section 4.8.2).
fn is_share(filter: &str) -> bool
    ensures { result ≡ wishes.is_share filter.now }
{
    filter.starts_with("$share/")
}

// What stands after the first `/`: nothing if there is none.
fn later_levels(text: &str) -> &str
    ensures { result.now ≡ after_first wishes.is_slash text.now }
{
    match text.split_once('/') {
        Some((_, levels)) => levels,
        None => "",
    }
}

// What comes after the ShareName of a shared subscription.
fn shared_filter(filter: &str) -> &str
    ensures { result.now ≡ wishes.shared_filter filter.now }
{
    later_levels(later_levels(filter))
}

// What a filter of a SUBSCRIBE with this Subscription Identifier, or without one, subscribes to, if
// this QoS is granted.
fn subscribed_to(identifier: Option<u32>, asked: &NotedFilter, qos: u8) -> Subscription<'_>
    ensures { matching.subscription_of result ≡ subscriptions.subscribed_to identifier asked.now qos }
{
    let filter = asked.filter.as_str();
    Subscription {
        filter,
        is_shared: is_share(filter),
        options: asked.options,
        ceiling: qos,
        identifier,
    }
}

// Whether Retain As Published is 1: what is forwarded keeps its RETAIN flag.
fn is_as_published(subscription: &Subscription<'_>) -> bool
    ensures { result ≡ subscriptions.is_as_published (matching.subscription_of subscription.now) }
{
    subscription.options / 8 % 2 == 1
}

// Whether retained messages may be sent at the time of the SUBSCRIBE.
fn asks_for_retained(subscription: &Subscription<'_>) -> bool
    ensures { result ≡ subscriptions.asks_for_retained (matching.subscription_of subscription.now) }
{
    subscription.options / 16 % 4 != SENDS_NONE
}

// Whether what is sent for it may have RETAIN 1.
fn may_be_retained(subscription: &Subscription<'_>) -> bool
    ensures { result ≡ subscriptions.may_be_retained (matching.subscription_of subscription.now) }
{
    is_as_published(subscription) || (!subscription.is_shared && asks_for_retained(subscription))
}

// Whether it is shared, and asks for retained messages.
fn asks_in_vain(subscription: &Subscription<'_>) -> bool
    ensures { result ≡ subscriptions.asks_in_vain (matching.subscription_of subscription.now) }
{
    subscription.is_shared && asks_for_retained(subscription)
}

// Whether it is of this kind.
fn is_of_kind(kind: Kind, subscription: &Subscription<'_>) -> bool
    ensures { result ≡ matching.of_kind kind (matching.subscription_of subscription.now) }
{
    match kind {
        Kind::Any => true,
        Kind::Granted(qos) => qos <= subscription.ceiling,
        Kind::Named(identifier) => subscription.identifier == Some(identifier),
        Kind::Unidentified => subscription.identifier.is_none(),
        Kind::Retained => may_be_retained(subscription),
        Kind::InVain => asks_in_vain(subscription),
    }
}

// Whether it matches the topic: its Topic Filter does, or if it is shared the filter after the
// ShareName (MQTT 5.0, sections 4.7 and 4.8.2).
fn is_about(topic: &str, subscription: &Subscription<'_>) -> bool
    ensures { result ≡ subscriptions.is_about topic.now (matching.subscription_of subscription.now) }
{
    matches(subscription.filter, topic)
        || (subscription.is_shared && matches(shared_filter(subscription.filter), topic))
}

// Whether it matches the topic, and is of this kind.
fn is_matched(kind: Kind, topic: &str, subscription: &Subscription<'_>) -> bool
    ensures { result ≡ matching.is_matched kind topic.now (matching.subscription_of subscription.now) }
{
    is_about(topic, subscription) && is_of_kind(kind, subscription)
}

// ---- those of a SUBSCRIBE

// Whether what a filter of a SUBSCRIBE subscribes to matches the topic, and is of this kind, given
// the filter's Reason Code if there is one (MQTT 5.0, section 3.9.3).
fn is_matched_with(
    kind: Kind,
    topic: &str,
    identifier: Option<u32>,
    asked: &NotedFilter,
    code: Option<u8>,
) -> bool
    ensures { result ≡ matching.is_matched_with kind topic.now identifier asked.now code }
{
    match code {
        Some(code) => {
            code < REFUSING && is_matched(kind, topic, &subscribed_to(identifier, asked, code))
        }
        None => is_matched(
            kind,
            topic,
            &subscribed_to(identifier, asked, asked.options % 4),
        ),
    }
}

// Whether one of the subscriptions to these filters does and is, given the Reason Codes of the
// SUBACK.
fn any_matched(
    kind: Kind,
    topic: &str,
    identifier: Option<u32>,
    asked: &[NotedFilter],
    codes: &[u8],
) -> bool
    ensures { result ≡ list_any (matching.is_matched kind topic.now) (subscriptions.subscribed_by identifier asked.now codes.now) }
{
    let mut asked = asked;
    let mut codes = codes;
    while let Some((filter, next_asked)) = asked.split_first() {
        let (code, next_codes) = next_code(codes);
        if is_matched_with(kind, topic, identifier, filter, code) {
            return true;
        }
        asked = next_asked;
        codes = next_codes;
    }
    false
}

// Whether an event is a SUBSCRIBE that was received, and one of its subscriptions, by what was
// answered before these events end, matches the topic and is of this kind.
fn has_matching(kind: Kind, topic: &str, asking: Found<'_>, before: &[Seen]) -> bool
    ensures { result ≡ matching.has_matching_after kind topic.now (reverse before.now) (moment_of asking.entry) }
{
    match asking.event.note.received_fields() {
        Some(
            PacketFields::Subscribe {
                filters,
                wishes,
                ..
            },
        ) => any_matched(
            kind,
            topic,
            wishes.subscription_identifier,
            filters.as_slice(),
            codes_answering(asking, before),
        ),
        _ => false,
    }
}

// ---- those of a session

/// The SUBSCRIBEs with a subscription that matches a topic, and is of a kind.
#[derive(Drop)]
struct Matching<'a> {
    kind: Kind,
    topic: &'a str,
    before: &'a [Seen],
}

impl MomentTest for Matching<'_> {
    ghost use Rattle.std.specs.Prelude.{reverse};
    ghost use Rattle.mq_plain.specs.Matching.{has_matching_after};

    ghost test = { λ t. has_matching_after t.kind t.topic.now (reverse t.before.now) };

    fn passes(&self, event: &Seen, before: &[Seen]) -> bool {
        has_matching(self.kind, self.topic, Found { event, before }, self.before)
    }
}

/// Whether before these events end some subscription of the session matches the topic and is of
/// this kind, if the latest connection is accepted with this fate. One counts for the rest of its
/// session, also after it was replaced or given up.
pub fn some_matching(role: Role, fate: Fate, kind: Kind, topic: &str, before: &[Seen]) -> bool
    ensures { result ≡ matching.some_matching_after role fate (reverse before.now) topic.now (matching.of_kind kind) }
{
    let subscribes = Matching {
        kind,
        topic,
        before,
    };
    some_moment_in_session(role, Some(fate), &subscribes, before)
}
