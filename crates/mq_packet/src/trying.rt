//! Which rules on a packet's bytes a packet puts to the test.

ghost use Rattle.std.specs.Prelude.{◌≡◌, ◌||◌, not};
ghost use Rattle.std.specs.Option.{option_map};
ghost use Rattle.mq_packet.specs.declared.packet.PacketType.TheVariants as types;
ghost use Rattle.mq_packet.specs.Reading.{view, will_view, publish_view};
ghost use Rattle.mq_packet.specs.Tries as trying;
ghost use Rattle.mq_packet.specs.Tries.{is_type, is_publish_that, in_will, in_lists};

use crate::packet::{Packet, Publish, Qos, Will};
use crate::rule::PacketRule;
use mq_props::Props;

/// What is asked of a property list.
#[derive(Clone, Copy)]
pub enum ListQuestion {
    /// Whether it has a property.
    Any,
    /// Whether it has one with a text.
    Text,
    /// Whether it has one that may not have each value of its type.
    Range,
    /// Whether it has one that may be there only once.
    Single,
}

// The answer of a list.
fn answer(question: ListQuestion, list: &Props<'_>) -> bool
    ensures { result ≡ trying.asks question list.now }
{
    match question {
        ListQuestion::Any => list.has_any(),
        ListQuestion::Text => list.has_text(),
        ListQuestion::Range => list.has_range(),
        ListQuestion::Single => list.has_single(),
    }
}

// The answer of a Will's list; none is a no.
fn will_answers(question: ListQuestion, will: &Option<Will<'_>>) -> bool
    ensures { result ≡ in_will (trying.asks question) (option_map will_view will.now) }
{
    match will {
        Some(will) => answer(question, &will.properties),
        None => false,
    }
}

// Whether a property list of the packet answers yes.
fn has_list(question: ListQuestion, packet: &Packet<'_>) -> bool
    ensures { result ≡ in_lists (trying.asks question) (view packet.now) }
{
    match packet {
        Packet::Connect(packet) => {
            answer(question, &packet.properties) || will_answers(question, &packet.will)
        }
        Packet::Connack(packet) => answer(question, &packet.properties),
        Packet::Publish(packet) => answer(question, &packet.properties),
        Packet::Puback(packet)
        | Packet::Pubrec(packet)
        | Packet::Pubrel(packet)
        | Packet::Pubcomp(packet) => answer(question, &packet.properties),
        Packet::Subscribe(packet) | Packet::Unsubscribe(packet) => {
            answer(question, &packet.properties)
        }
        Packet::Suback(packet) | Packet::Unsuback(packet) => answer(question, &packet.properties),
        Packet::Pingreq | Packet::Pingresp => false,
        Packet::Disconnect(packet) | Packet::Auth(packet) => answer(question, &packet.properties),
    }
}

// Whether the packet has Topic Filters.
fn is_request(packet: &Packet<'_>) -> bool
    ensures { result ≡ trying.is_request (view packet.now) }
{
    matches!(packet, Packet::Subscribe(_) | Packet::Unsubscribe(_))
}

// Whether the packet has a Packet Identifier.
fn is_identified(packet: &Packet<'_>) -> bool
    ensures { result ≡ trying.is_identified (view packet.now) }
{
    match packet {
        Packet::Publish(publish) => publish.identifier.is_some(),
        Packet::Puback(_)
        | Packet::Pubrec(_)
        | Packet::Pubrel(_)
        | Packet::Pubcomp(_)
        | Packet::Subscribe(_)
        | Packet::Suback(_)
        | Packet::Unsubscribe(_)
        | Packet::Unsuback(_) => true,
        Packet::Connect(_)
        | Packet::Connack(_)
        | Packet::Pingreq
        | Packet::Pingresp
        | Packet::Disconnect(_)
        | Packet::Auth(_) => false,
    }
}

// Whether a Reason Code is written in the packet, which has this size in bytes.
fn writes_code(size: u32, packet: &Packet<'_>) -> bool
    ensures { result ≡ trying.writes_code size (view packet.now) }
{
    match packet {
        Packet::Connack(_) => true,
        Packet::Puback(_) | Packet::Pubrec(_) | Packet::Pubrel(_) | Packet::Pubcomp(_) => 4 < size,
        Packet::Suback(answer) | Packet::Unsuback(answer) => !answer.codes.as_bytes().is_empty(),
        Packet::Disconnect(_) | Packet::Auth(_) => 2 < size,
        Packet::Connect(_)
        | Packet::Publish(_)
        | Packet::Subscribe(_)
        | Packet::Unsubscribe(_)
        | Packet::Pingreq
        | Packet::Pingresp => false,
    }
}

// Whether the Topic Name isn't empty.
fn is_named(publish: &Publish<'_>) -> bool
    ensures { result ≡ trying.is_named (publish_view publish.now) }
{
    !publish.topic.is_empty()
}

// Whether the PUBLISH has a Response Topic.
fn asks_for_response(publish: &Publish<'_>) -> bool
    ensures { result ≡ trying.asks_for_response (publish_view publish.now) }
{
    publish.properties.has_response_topic()
}

// Whether the packet is a PUBLISH with a Topic Name.
fn is_named_publish(packet: &Packet<'_>) -> bool
    ensures { result ≡ is_publish_that trying.is_named (view packet.now) }
{
    match packet {
        Packet::Publish(publish) => is_named(publish),
        _ => false,
    }
}

// Whether the packet is a PUBLISH without a Topic Name.
fn is_nameless_publish(packet: &Packet<'_>) -> bool
    ensures { result ≡ is_publish_that (λ p. not (trying.is_named p)) (view packet.now) }
{
    match packet {
        Packet::Publish(publish) => !is_named(publish),
        _ => false,
    }
}

// Whether the packet is a PUBLISH with a Topic Name or a Response Topic.
fn has_topic(packet: &Packet<'_>) -> bool
    ensures { result ≡ is_publish_that (λ p. trying.is_named p || trying.asks_for_response p) (view packet.now) }
{
    match packet {
        Packet::Publish(publish) => is_named(publish) || asks_for_response(publish),
        _ => false,
    }
}

// Whether the packet is a PUBLISH of QoS 0.
fn is_publish_at_most_once(packet: &Packet<'_>) -> bool
    ensures { result ≡ is_publish_that (λ p. trying.is_at_most_once p.qos) (view packet.now) }
{
    match packet {
        Packet::Publish(publish) => matches!(publish.qos, Qos::AtMostOnce),
        _ => false,
    }
}

// Whether the packet has a text.
fn is_texted(packet: &Packet<'_>) -> bool
    ensures { result ≡ trying.is_texted (view packet.now) }
{
    let named = is_connect(packet) || is_request(packet) || is_named_publish(packet);
    named || has_list(ListQuestion::Text, packet)
}

// Whether the packet is a PUBLISH.
fn is_publish(packet: &Packet<'_>) -> bool
    ensures { result ≡ is_type types.Publish (view packet.now) }
{
    matches!(packet, Packet::Publish(_))
}

// Whether the packet is a CONNECT.
fn is_connect(packet: &Packet<'_>) -> bool
    ensures { result ≡ is_type types.Connect (view packet.now) }
{
    matches!(packet, Packet::Connect(_))
}

// Whether the packet is a CONNACK.
fn is_connack(packet: &Packet<'_>) -> bool
    ensures { result ≡ is_type types.Connack (view packet.now) }
{
    matches!(packet, Packet::Connack(_))
}

// Whether the packet is a SUBSCRIBE.
fn is_subscribe(packet: &Packet<'_>) -> bool
    ensures { result ≡ is_type types.Subscribe (view packet.now) }
{
    matches!(packet, Packet::Subscribe(_))
}

impl Packet<'_> {
    /// Whether the packet, which has this size in bytes, puts a rule to the test: it has the part
    /// that the rule is about (MQTT 5.0, sections 2 and 3). Each packet has a type, a Remaining
    /// Length and an end (W02, W03, W06).
    #[tactic(auto, unfolding(crate::specs::Tries::tries))]
    pub fn tries(&self, size: u32, rule: PacketRule) -> bool
        ensures { result ≡ trying.tries rule size (view self.now) }
    {
        match rule {
            PacketRule::W01 => !is_publish(self),
            PacketRule::W02 | PacketRule::W03 | PacketRule::W06 => true,
            PacketRule::W04 | PacketRule::W05 => is_texted(self),
            PacketRule::W07 => is_publish(self),
            PacketRule::W08 => is_publish_at_most_once(self),
            PacketRule::W09 => is_identified(self),
            PacketRule::W10 => has_list(ListQuestion::Any, self),
            PacketRule::W11 => has_list(ListQuestion::Single, self),
            PacketRule::W12 => has_list(ListQuestion::Range, self),
            PacketRule::W13 => writes_code(size, self),
            PacketRule::W14 => has_topic(self),
            PacketRule::W15 | PacketRule::W16 => is_request(self),
            PacketRule::W17 => is_subscribe(self),
            PacketRule::W18 | PacketRule::W19 => is_connect(self),
            PacketRule::W20 => is_connack(self),
            PacketRule::W21 => is_nameless_publish(self),
        }
    }
}
