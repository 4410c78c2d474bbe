//! The text of what is sent or received.
ghost use Rattle.std.specs.Prelude.{◌≡◌, ◌<◌, ◌≤◌, ◌+◌, ◌++◌, Some, IfErr, OnOk, length};
ghost use Rattle.mq_log.specs.Reception.{item_of};
ghost use Rattle.mq_display.specs.ItemText.{type_name, identifier_of, qos_and_dup, flag_number, delivery_words, identifier_words, with_spaces, packet_rule_code, packet_text, broken_text, item_text};

use super::packet_summary::PacketSummary;
use mq_log::Item;
use mq_packet::PacketRule;
use mq_report::Lines;
use mq_rules::{Rule, qos_number};
use std::fmt;

/// The text of a direction that is lost.
pub const LOST: &str = "LOST";

/// Appends the text of an item that was sent or received to the waiting lines. A packet that was
/// read has a size.
///
/// # Errors
///
/// If there is no room for it. A beginning of it may then have been appended.
#[inline(always)]
pub fn put_item(lines: &mut Lines, item: &Item<'_>) -> fmt::Result
    ensures puts { OnOk result (lines.new ≡ lines.old ++ item_text (item_of item.now)) }
    ensures short { OnOk result (length (item_text (item_of item.now)) ≤ 71) }
    ensures full { IfErr result (λ _. 8192 < length lines.old + 71) }
{
    match item {
        Item::Packet(packet) => {
            put_packet(lines, PacketSummary::of(packet), packet.size().unwrap_or(0))
        }
        Item::Bad { rule, at, .. } => put_broken(lines, *rule, *at),
        Item::Lost => lines.put(LOST),
    }
}

/// Appends the text of a packet that has this size to the waiting lines.
///
/// # Errors
///
/// If there is no room for it. A beginning of it may then have been appended.
#[inline(always)]
pub fn put_packet(lines: &mut Lines, packet: PacketSummary, size: u32) -> fmt::Result
    ensures puts { OnOk result (lines.new ≡ lines.old ++ packet_text packet size) }
    ensures short { OnOk result (length (packet_text packet size) ≤ 71) }
    ensures full { IfErr result (λ _. 8192 < length lines.old + 71) }
{
    lines.put(type_name(packet))?;
    lines.put(" size ")?;
    lines.put_number(size)?;
    put_delivery(lines, delivery_of(packet))?;
    put_identifier(lines, identifier_of(packet))
}

/// Appends the text of bytes that break a rule to the waiting lines: the rule, and the offset of
/// the field that breaks it.
///
/// # Errors
///
/// If there is no room for it. A beginning of it may then have been appended.
pub fn put_broken(lines: &mut Lines, rule: PacketRule, at: u32) -> fmt::Result
    ensures puts { OnOk result (lines.new ≡ lines.old ++ broken_text rule at) }
    ensures short { OnOk result (length (broken_text rule at) ≤ 71) }
    ensures full { IfErr result (λ _. 8192 < length lines.old + 71) }
{
    lines.put("BAD ")?;
    lines.put(rule_code(rule))?;
    lines.put(" offset ")?;
    lines.put_number(at)
}

/// The code of a rule on a packet's bytes.
pub fn rule_code(rule: PacketRule) -> &'static str
    ensures { result.now ≡ packet_rule_code rule }
{
    Rule::of(rule).code()
}

// Appends the words on a PUBLISH's delivery, if it is one, each after a space.
fn put_delivery(lines: &mut Lines, delivery: Option<(u8, u8)>) -> fmt::Result
    ensures puts { OnOk result (lines.new ≡ lines.old ++ with_spaces (delivery_words delivery)) }
    ensures short { OnOk result (length (with_spaces (delivery_words delivery)) ≤ 30) }
    ensures full { IfErr result (λ _. 8192 < length lines.old + 30) }
{
    match delivery {
        Some((qos, duplicate)) => {
            lines.put(" qos ")?;
            lines.put_number(u32::from(qos))?;
            lines.put(" dup ")?;
            lines.put_number(u32::from(duplicate))
        }
        None => Ok(()),
    }
}

// Appends the words on a Packet Identifier, if there is one, each after a space.
fn put_identifier(lines: &mut Lines, identifier: Option<u16>) -> fmt::Result
    ensures puts { OnOk result (lines.new ≡ lines.old ++ with_spaces (identifier_words identifier)) }
    ensures short { OnOk result (length (with_spaces (identifier_words identifier)) ≤ 14) }
    ensures full { IfErr result (λ _. 8192 < length lines.old + 14) }
{
    match identifier {
        Some(identifier) => {
            lines.put(" id ")?;
            lines.put_number(u32::from(identifier))
        }
        None => Ok(()),
    }
}

// The name of the packet's type (MQTT 5.0, section 2.1.2).
fn type_name(packet: PacketSummary) -> &'static str
    ensures name { result.now ≡ type_name packet }
    ensures short { length result.now ≤ 11 }
{
    match packet {
        PacketSummary::Connect => "CONNECT",
        PacketSummary::Connack { .. } => "CONNACK",
        PacketSummary::Publish { .. } => "PUBLISH",
        PacketSummary::Puback { .. } => "PUBACK",
        PacketSummary::Pubrec { .. } => "PUBREC",
        PacketSummary::Pubrel { .. } => "PUBREL",
        PacketSummary::Pubcomp { .. } => "PUBCOMP",
        PacketSummary::Subscribe(_) => "SUBSCRIBE",
        PacketSummary::Suback(_) => "SUBACK",
        PacketSummary::Unsubscribe(_) => "UNSUBSCRIBE",
        PacketSummary::Unsuback(_) => "UNSUBACK",
        PacketSummary::Pingreq => "PINGREQ",
        PacketSummary::Pingresp => "PINGRESP",
        PacketSummary::Disconnect(_) => "DISCONNECT",
        PacketSummary::Auth(_) => "AUTH",
    }
}

// The Packet Identifier, if the packet has one (MQTT 5.0, section 2.2.1).
fn identifier_of(packet: PacketSummary) -> Option<u16>
    ensures { result ≡ identifier_of packet }
{
    match packet {
        PacketSummary::Publish { identifier, .. } => identifier,
        PacketSummary::Puback { identifier, .. }
        | PacketSummary::Pubrec { identifier, .. }
        | PacketSummary::Pubrel { identifier, .. }
        | PacketSummary::Pubcomp { identifier, .. }
        | PacketSummary::Subscribe(identifier)
        | PacketSummary::Suback(identifier)
        | PacketSummary::Unsubscribe(identifier)
        | PacketSummary::Unsuback(identifier) => Some(identifier),
        PacketSummary::Connect
        | PacketSummary::Connack { .. }
        | PacketSummary::Pingreq
        | PacketSummary::Pingresp
        | PacketSummary::Disconnect(_)
        | PacketSummary::Auth(_) => None,
    }
}

// The QoS of a PUBLISH and its DUP flag, as numbers (MQTT 5.0, section 3.3.1).
fn delivery_of(packet: PacketSummary) -> Option<(u8, u8)>
    ensures { result ≡ qos_and_dup packet }
{
    match packet {
        PacketSummary::Publish { qos, duplicate, .. } => {
            Some((qos_number(qos), u8::from(duplicate)))
        }
        _ => None,
    }
}
