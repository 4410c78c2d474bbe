//! B08, B09, P01, P02, R01 and R02: what is delivered, and the subscriptions that match it (MQTT
//! 5.0, sections 3.3.1.3, 3.3.4, 3.8.4 and 4.8.2).
ghost use Rattle.std.specs.Prelude.{◌≡◌, ◌&&◌, ◌||◌, nat_le, not, option_map, reverse};
ghost use Rattle.std.specs.List.{list_any};
ghost use Rattle.mq_rules.specs.Words.{is_some_and};
ghost use Rattle.mq_rules.specs.Notes.{qos_number as number_of};
ghost use Rattle.mq_rules.specs.Moments.{newest};
ghost use Rattle.mq_rules.specs.MatchingSubscriptions as subscriptions;
ghost use Rattle.mq_plain.specs.Matching as matching;

use crate::deliveries::{is_sharing, topic_of};
use crate::further::deletions::is_clear;
use crate::further::matching::{Kind, some_matching};
use crate::handshake::handshake_of;
use crate::judging::SessionStatement;
use mq_rules::{Fate, Memory, PublishNote, Role, Rule, Seen, qos_number};
use std::alloc::Global;

/// A PUBLISH with DUP 0 that is sent.
#[derive(Clone, Copy)]
struct Delivery<'a> {
    /// The PUBLISH.
    publish: &'a PublishNote,
    /// Its topic.
    topic: &'a str,
}

/// What a statement asks of a delivery.
trait DeliveryTest {
    ghost use Rattle.std.specs.Prelude.{◌≡◌, Bool, List, reverse};
    ghost use Rattle.mq_rules.specs.declared.role.Role.{Role};
    ghost use Rattle.mq_rules.specs.declared.fate.Fate.{Fate};
    ghost use Rattle.mq_rules.specs.declared.note.Seen.{Seen};
    ghost use Rattle.mq_rules.specs.declared.packet_note.PublishNote.{PublishNote};
    ghost use Rattle.mq_rules.specs.MatchingSubscriptions.{Subscribed};
    ghost use Rattle.mq_plain.specs.Matching.{some_matching_after};

    // When a PUBLISH after these events breaks it, given which tests some subscription passes that
    // matches its topic.
    ghost breaks_with: { Role → Fate → List Seen → PublishNote → ((Subscribed → Bool) → Bool) → Bool };

    /// Whether a delivery after these events breaks the statement; its connection is accepted and
    /// has this fate.
    fn is_broken_by(role: Role, fate: Fate, delivery: Delivery<'_>, before: &[Seen]) -> bool
        ensures { result ≡ breaks_with role fate (reverse before.now) delivery.entry.publish.now (some_matching_after role fate (reverse before.now) delivery.entry.topic.now) };
}

// ---- what is delivered

// What an event delivers, if it does: it sends a PUBLISH with DUP 0 whose topic is known.
fn delivery_at<'a>(event: &'a Seen, before: &'a [Seen]) -> Option<Delivery<'a>>
    ensures { option_map matching.delivered_of result ≡ matching.delivered_after event.now.note (reverse before.now) }
{
    match event.note.sent_publish() {
        Some(publish) => delivery_of(publish, before),
        None => None,
    }
}

// The delivery by a PUBLISH with these events before it, if its DUP is 0 and its topic known.
fn delivery_of<'a>(publish: &'a PublishNote, before: &'a [Seen]) -> Option<Delivery<'a>>
    ensures { option_map matching.delivered_of result ≡ matching.delivered_by (reverse before.now) publish.now }
{
    if publish.duplicate {
        return None;
    }
    match topic_of(publish, before) {
        Some(topic) => Some(Delivery { publish, topic }),
        None => None,
    }
}

// Whether an event delivers what breaks a statement.
fn delivers_so<T: DeliveryTest>(role: Role, fate: Fate, event: &Seen, before: &[Seen]) -> bool
    ensures { result ≡ is_some_and (λ d. T.breaks_with role fate (reverse before.now) d.publish (matching.some_matching_after role fate (reverse before.now) d.topic)) (matching.delivered_after event.now.note (reverse before.now)) }
{
    match delivery_at(event, before) {
        Some(delivery) => T::is_broken_by(role, fate, delivery, before),
        None => false,
    }
}

// Whether an event does so, in a session of which all requests could be read.
fn delivers_clearly<T: DeliveryTest>(role: Role, fate: Fate, event: &Seen, before: &[Seen]) -> bool
    ensures { result ≡ subscriptions.is_matched_so role fate (newest event.now (reverse before.now)) (T.breaks_with role fate (reverse before.now)) }
{
    is_clear(role, fate, before) && delivers_so::<T>(role, fate, event, before)
}

// ---- B08

/// B08: in a session with a shared subscription, what is delivered matches some subscription.
pub struct SharedTopics;

impl DeliveryTest for SharedTopics {
    ghost use Rattle.mq_plain.specs.Matching.{is_fault_B08};

    ghost breaks_with = { is_fault_B08 };

    fn is_broken_by(role: Role, fate: Fate, delivery: Delivery<'_>, before: &[Seen]) -> bool {
        is_sharing(role, fate, before)
            && !some_matching(role, fate, Kind::Any, delivery.topic, before)
    }
}

impl SessionStatement for SharedTopics {
    ghost use Rattle.std.specs.Prelude.{refl};
    ghost use Rattle.mq_rules.specs.declared.rule.Rule.TheVariants.{B08};
    ghost use Rattle.mq_rules.specs.MatchingSubscriptions.{breaks_B08};

    ghost judged = { B08 };

    ghost breaks = { breaks_B08 };

    fn rule() -> Rule {
        Rule::B08
    }

    #[tactic(auto, unfolding(mq_rules::specs::MatchingSubscriptions::breaks_B08))]
    fn is_broken(
        _alloc: Global,
        role: Role,
        fate: Fate,
        event: &Seen,
        before: &[Seen],
    ) -> Result<bool, Memory> {
        Ok(delivers_clearly::<SharedTopics>(role, fate, event, before))
    }

    ghost says = { λ role. refl };
}

// ---- B09

// Whether subscriptions match a topic, and none of them was granted this QoS.
fn is_above(role: Role, fate: Fate, topic: &str, qos: u8, before: &[Seen]) -> bool
    ensures { result ≡ (matching.some_matching_after role fate (reverse before.now) topic.now subscriptions.any_subscription && not (matching.some_matching_after role fate (reverse before.now) topic.now (λ s. nat_le qos s.ceiling))) }
{
    some_matching(role, fate, Kind::Any, topic, before)
        && !some_matching(role, fate, Kind::Granted(qos), topic, before)
}

// Whether subscriptions match the topic of a delivery, and none of them was granted its QoS.
fn is_above_granted(role: Role, fate: Fate, delivery: Delivery<'_>, before: &[Seen]) -> bool
    ensures { result ≡ (matching.some_matching_after role fate (reverse before.now) delivery.entry.topic.now subscriptions.any_subscription && not (matching.some_matching_after role fate (reverse before.now) delivery.entry.topic.now (λ s. nat_le (number_of delivery.entry.publish.now.qos) s.ceiling))) }
{
    let qos = qos_number(delivery.publish.qos);
    is_above(role, fate, delivery.topic, qos, before)
}

/// B09: in such a session, what is delivered isn't at a higher QoS than some subscription that
/// matches was granted.
pub struct SharedQos;

impl DeliveryTest for SharedQos {
    ghost use Rattle.mq_plain.specs.Matching.{is_fault_B09};

    ghost breaks_with = { is_fault_B09 };

    fn is_broken_by(role: Role, fate: Fate, delivery: Delivery<'_>, before: &[Seen]) -> bool {
        is_sharing(role, fate, before) && is_above_granted(role, fate, delivery, before)
    }
}

impl SessionStatement for SharedQos {
    ghost use Rattle.std.specs.Prelude.{refl};
    ghost use Rattle.mq_rules.specs.declared.rule.Rule.TheVariants.{B09};
    ghost use Rattle.mq_rules.specs.MatchingSubscriptions.{breaks_B09};

    ghost judged = { B09 };

    ghost breaks = { breaks_B09 };

    fn rule() -> Rule {
        Rule::B09
    }

    #[tactic(auto, unfolding(mq_rules::specs::MatchingSubscriptions::breaks_B09))]
    fn is_broken(
        _alloc: Global,
        role: Role,
        fate: Fate,
        event: &Seen,
        before: &[Seen],
    ) -> Result<bool, Memory> {
        Ok(delivers_clearly::<SharedQos>(role, fate, event, before))
    }

    ghost says = { λ role. refl };
}

// ---- P01

// Whether some subscription that matches a topic has this Subscription Identifier.
fn is_named(role: Role, fate: Fate, topic: &str, identifier: u32, before: &[Seen]) -> bool
    ensures { result ≡ matching.some_matching_after role fate (reverse before.now) topic.now (subscriptions.is_named identifier) }
{
    some_matching(role, fate, Kind::Named(identifier), topic, before)
}

// Whether one of these Subscription Identifiers is that of no subscription that matches a topic.
fn has_strange(role: Role, fate: Fate, topic: &str, identifiers: &[u32], before: &[Seen]) -> bool
    ensures { result ≡ list_any (λ i. not (matching.some_matching_after role fate (reverse before.now) topic.now (subscriptions.is_named i))) identifiers.now }
{
    identifiers.iter().any(|identifier| !is_named(role, fate, topic, *identifier, before))
}

/// P01: each Subscription Identifier of what is delivered is that of a subscription that matches, if
/// one does.
pub struct OwnIdentifiers;

impl DeliveryTest for OwnIdentifiers {
    ghost use Rattle.mq_plain.specs.Matching.{is_fault_P01};

    ghost breaks_with = { is_fault_P01 };

    fn is_broken_by(role: Role, fate: Fate, delivery: Delivery<'_>, before: &[Seen]) -> bool {
        let identifiers = delivery.publish.subscription_identifiers.as_slice();
        some_matching(role, fate, Kind::Any, delivery.topic, before)
            && has_strange(role, fate, delivery.topic, identifiers, before)
    }
}

impl SessionStatement for OwnIdentifiers {
    ghost use Rattle.std.specs.Prelude.{refl};
    ghost use Rattle.mq_rules.specs.declared.rule.Rule.TheVariants.{P01};
    ghost use Rattle.mq_rules.specs.MatchingSubscriptions.{breaks_P01};

    ghost judged = { P01 };

    ghost breaks = { breaks_P01 };

    fn rule() -> Rule {
        Rule::P01
    }

    #[tactic(auto, unfolding(mq_rules::specs::MatchingSubscriptions::breaks_P01))]
    fn is_broken(
        _alloc: Global,
        role: Role,
        fate: Fate,
        event: &Seen,
        before: &[Seen],
    ) -> Result<bool, Memory> {
        Ok(delivers_clearly::<OwnIdentifiers>(role, fate, event, before))
    }

    ghost says = { λ role. refl };
}

// ---- P02

// Whether the server takes Subscription Identifiers on the latest connection: its CONNACK doesn't
// say otherwise (MQTT 5.0, section 3.2.2.3.12).
fn takes_identifiers(role: Role, before: &[Seen]) -> bool
    ensures { result ≡ matching.takes_identifiers_after role (reverse before.now) }
{
    match handshake_of(role, before).connack {
        Some(connack) => connack.subscription_identifier_available != Some(0),
        None => true,
    }
}

// Whether subscriptions match a topic, and each of them has a Subscription Identifier.
fn are_identified(role: Role, fate: Fate, topic: &str, before: &[Seen]) -> bool
    ensures { result ≡ subscriptions.are_identified (matching.some_matching_after role fate (reverse before.now) topic.now) }
{
    some_matching(role, fate, Kind::Any, topic, before)
        && !some_matching(role, fate, Kind::Unidentified, topic, before)
}

// Whether a PUBLISH on the topic has to have a Subscription Identifier.
fn needs_identifier(role: Role, fate: Fate, topic: &str, before: &[Seen]) -> bool
    ensures { result ≡ (matching.takes_identifiers_after role (reverse before.now) && subscriptions.are_identified (matching.some_matching_after role fate (reverse before.now) topic.now)) }
{
    takes_identifiers(role, before) && are_identified(role, fate, topic, before)
}

/// P02: what is delivered has a Subscription Identifier, if each subscription that matches has one.
pub struct GivenIdentifiers;

impl DeliveryTest for GivenIdentifiers {
    ghost use Rattle.mq_plain.specs.Matching.{is_fault_P02};

    ghost breaks_with = { is_fault_P02 };

    fn is_broken_by(role: Role, fate: Fate, delivery: Delivery<'_>, before: &[Seen]) -> bool {
        needs_identifier(role, fate, delivery.topic, before)
            && !delivery.publish.has_subscription_identifier
    }
}

impl SessionStatement for GivenIdentifiers {
    ghost use Rattle.std.specs.Prelude.{refl};
    ghost use Rattle.mq_rules.specs.declared.rule.Rule.TheVariants.{P02};
    ghost use Rattle.mq_rules.specs.MatchingSubscriptions.{breaks_P02};

    ghost judged = { P02 };

    ghost breaks = { breaks_P02 };

    fn rule() -> Rule {
        Rule::P02
    }

    #[tactic(auto, unfolding(mq_rules::specs::MatchingSubscriptions::breaks_P02))]
    fn is_broken(
        _alloc: Global,
        role: Role,
        fate: Fate,
        event: &Seen,
        before: &[Seen],
    ) -> Result<bool, Memory> {
        Ok(delivers_clearly::<GivenIdentifiers>(role, fate, event, before))
    }

    ghost says = { λ role. refl };
}

// ---- R01

// Whether some subscription that matches a topic keeps the RETAIN flag, or asks for retained
// messages.
fn some_retained(role: Role, fate: Fate, topic: &str, before: &[Seen]) -> bool
    ensures { result ≡ (matching.some_matching_after role fate (reverse before.now) topic.now subscriptions.may_be_retained || matching.some_matching_after role fate (reverse before.now) topic.now subscriptions.asks_in_vain) }
{
    some_matching(role, fate, Kind::Retained, topic, before)
        || some_matching(role, fate, Kind::InVain, topic, before)
}

// Whether subscriptions match a topic, and none of them does that.
fn are_unretained(role: Role, fate: Fate, topic: &str, before: &[Seen]) -> bool
    ensures { result ≡ subscriptions.are_unretained (matching.some_matching_after role fate (reverse before.now) topic.now) }
{
    some_matching(role, fate, Kind::Any, topic, before) && !some_retained(role, fate, topic, before)
}

/// R01: RETAIN of what is delivered is 0, if no subscription that matches keeps the flag or asks for
/// retained messages.
pub struct ClearedRetain;

impl DeliveryTest for ClearedRetain {
    ghost use Rattle.mq_plain.specs.Matching.{is_fault_R01};

    ghost breaks_with = { is_fault_R01 };

    fn is_broken_by(role: Role, fate: Fate, delivery: Delivery<'_>, before: &[Seen]) -> bool {
        are_unretained(role, fate, delivery.topic, before) && delivery.publish.retain
    }
}

impl SessionStatement for ClearedRetain {
    ghost use Rattle.std.specs.Prelude.{refl};
    ghost use Rattle.mq_rules.specs.declared.rule.Rule.TheVariants.{R01};
    ghost use Rattle.mq_rules.specs.MatchingSubscriptions.{breaks_R01};

    ghost judged = { R01 };

    ghost breaks = { breaks_R01 };

    fn rule() -> Rule {
        Rule::R01
    }

    #[tactic(auto, unfolding(mq_rules::specs::MatchingSubscriptions::breaks_R01))]
    fn is_broken(
        _alloc: Global,
        role: Role,
        fate: Fate,
        event: &Seen,
        before: &[Seen],
    ) -> Result<bool, Memory> {
        Ok(delivers_clearly::<ClearedRetain>(role, fate, event, before))
    }

    ghost says = { λ role. refl };
}

// ---- R02

// Whether a shared subscription that matches a topic asks for retained messages, and none that
// matches may be sent what has RETAIN 1.
fn are_shared(role: Role, fate: Fate, topic: &str, before: &[Seen]) -> bool
    ensures { result ≡ subscriptions.are_shared (matching.some_matching_after role fate (reverse before.now) topic.now) }
{
    some_matching(role, fate, Kind::InVain, topic, before)
        && !some_matching(role, fate, Kind::Retained, topic, before)
}

/// R02: RETAIN of what is delivered is 0, if a shared subscription that matches asks for retained
/// messages, and for none that matches it may be 1.
pub struct UnretainedShares;

impl DeliveryTest for UnretainedShares {
    ghost use Rattle.mq_plain.specs.Matching.{is_fault_R02};

    ghost breaks_with = { is_fault_R02 };

    fn is_broken_by(role: Role, fate: Fate, delivery: Delivery<'_>, before: &[Seen]) -> bool {
        are_shared(role, fate, delivery.topic, before) && delivery.publish.retain
    }
}

impl SessionStatement for UnretainedShares {
    ghost use Rattle.std.specs.Prelude.{refl};
    ghost use Rattle.mq_rules.specs.declared.rule.Rule.TheVariants.{R02};
    ghost use Rattle.mq_rules.specs.MatchingSubscriptions.{breaks_R02};

    ghost judged = { R02 };

    ghost breaks = { breaks_R02 };

    fn rule() -> Rule {
        Rule::R02
    }

    #[tactic(auto, unfolding(mq_rules::specs::MatchingSubscriptions::breaks_R02))]
    fn is_broken(
        _alloc: Global,
        role: Role,
        fate: Fate,
        event: &Seen,
        before: &[Seen],
    ) -> Result<bool, Memory> {
        Ok(delivers_clearly::<UnretainedShares>(role, fate, event, before))
    }

    ghost says = { λ role. refl };
}
