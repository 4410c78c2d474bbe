//! The reader of PUBLISH (MQTT 5.0, section 3.3).

ghost use Rattle.std.specs.Prelude.{◌≡◌, ◌+◌, ◌≤◌, ◌==◌, Bool, true, Ok, IfOk, IfSome, is_some, length, bit_and, if◌then◌else◌};
ghost use Rattle.mq_props.specs.declared.table.Place.TheVariants as places;
ghost use Rattle.mq_packet.specs.declared.rule.PacketRule.TheVariants as rules;
ghost use Rattle.mq_packet.specs.Entries.{publish, listed};
ghost use Rattle.mq_packet.specs.Formats.{bad_first_byte, properties, alias_objection, names_topic, has_bits, qos_of, publish_format, publish_unacknowledged, publish_acknowledged, publish_from};
ghost use Rattle.mq_packet.specs.declared.packet.Qos.{Qos as TheQos};
ghost use Rattle.mq_packet.specs.declared.packet.Qos.TheVariants.{AtLeastOnce, ExactlyOnce};
ghost use Rattle.mq_packet.specs.Brief.{has_no_properties, is_brief, is_brief_body, brief_fields, is_brief_identified, is_identified_body, identified_fields, starts_identified};
ghost use Rattle.mq_packet.specs.Decoding.{read, read_field};
ghost use Rattle.mq_packet.specs.Reading.{ReadsField, Reads, publish_view};

use super::fields::{packet_identifier, property_list, topic_name};
use crate::packet::{Publish, Qos};
use crate::protocol::{DUP, QOS, QOS_ONE, QOS_TWO, RETAIN};
use crate::read_fault::ReadFault;
use crate::rule::PacketRule;
use mq_props::{Place, Props, after_empty_list};
use mq_wire::Cursor;

/// Reads a PUBLISH with these flags (MQTT 5.0, section 3.3) from all that is left.
///
/// # Errors
///
/// W07 or W08 if the flags break it; else the first rule that a field breaks: a rule of texts, W06,
/// W09, W14, W21, or one of its property list.
#[inline(always)]
pub fn read_publish<'a>(flags: u8, cursor: Cursor<'a>) -> Result<Publish<'a>, ReadFault>
    ensures { Reads (λ p. publish (publish_view p)) result (read (publish_format flags) cursor.entry) }
{
    let duplicate = flags & DUP != 0;
    let retain = flags & RETAIN != 0;
    match flags & QOS {
        0 => read_unacknowledged(cursor, duplicate, retain),
        QOS_ONE => read_acknowledged(cursor, duplicate, Qos::AtLeastOnce, retain),
        QOS_TWO => read_acknowledged(cursor, duplicate, Qos::ExactlyOnce, retain),
        _ => Err(ReadFault::Broken {
            at: 0,
            rule: PacketRule::W07,
        }),
    }
}

/// The Topic Name of a PUBLISH with these flags whose body, which has no properties, is left, if it
/// has QoS 0, and a plain Topic Name that isn't empty, as most have. `None` for any other.
#[inline(always)]
pub fn brief_topic<'a>(flags: u8, cursor: Cursor<'a>) -> Option<&'a str>
    requires { has_no_properties cursor.rest ≡ true }
    ensures brief { is_some result ≡ is_brief flags cursor.entry.rest }
    ensures exact { IfSome result (λ topic. read (publish_format flags) cursor.entry ≡ Ok (publish (brief_fields (has_bits 1 flags) topic.now cursor.entry.rest))) }
    ensures long { IfSome result (λ topic. length topic.now + 3 ≤ length cursor.entry.rest) }
{
    if flags & QOS != 0 {
        return None;
    }
    if flags & DUP != 0 {
        return None;
    }
    topic_without_properties(cursor)
}

// The Topic Name of a PUBLISH of QoS 0 without properties, if it is plain and isn't empty: no Topic
// Alias can stand for an empty one there (MQTT 5.0, section 3.3.2.3.4).
#[inline(always)]
fn topic_without_properties<'a>(mut cursor: Cursor<'a>) -> Option<&'a str>
    requires { has_no_properties cursor.rest ≡ true }
    ensures brief { is_some result ≡ is_brief_body cursor.entry.rest }
    ensures exact { (retain : Bool) → IfSome result (λ topic. read (publish_unacknowledged retain) cursor.entry ≡ Ok (publish (brief_fields retain topic.now cursor.entry.rest))) }
    ensures long { IfSome result (λ topic. length topic.now + 3 ≤ length cursor.entry.rest) }
{
    let topic = cursor.plain_text()?;
    if topic.is_empty() {
        return None;
    }
    Some(topic)
}

/// The Topic Name of a PUBLISH with these flags whose body is left, if it has QoS 1 or 2, a plain
/// Topic Name that isn't empty, a Packet Identifier other than 0, and no properties, as most have.
/// `None` for any other.
#[inline(always)]
pub fn identified_topic<'a>(flags: u8, cursor: Cursor<'a>) -> Option<&'a str>
    ensures brief { is_some result ≡ is_brief_identified flags cursor.entry.rest }
    ensures exact { IfSome result (λ topic. read (publish_format flags) cursor.entry ≡ Ok (publish (identified_fields (has_bits 8 flags) (if bit_and flags 6 == 2 then AtLeastOnce else ExactlyOnce) (has_bits 1 flags) topic.now cursor.entry.rest))) }
    ensures long { IfSome result (λ topic. length topic.now + 5 ≤ length cursor.entry.rest) }
{
    match flags & QOS {
        QOS_ONE | QOS_TWO => topic_with_identifier(cursor),
        _ => None,
    }
}

// The Topic Name of a PUBLISH of QoS 1 or 2, if it is plain and isn't empty, and if a Packet
// Identifier other than 0 and an empty property list follow it.
#[inline(always)]
fn topic_with_identifier<'a>(mut cursor: Cursor<'a>) -> Option<&'a str>
    ensures brief { is_some result ≡ is_identified_body cursor.entry.rest }
    ensures exact { (duplicate : Bool) (qos : TheQos) (retain : Bool) → IfSome result (λ topic. read (publish_acknowledged duplicate qos retain) cursor.entry ≡ Ok (publish (identified_fields duplicate qos retain topic.now cursor.entry.rest))) }
    ensures long { IfSome result (λ topic. length topic.now + 5 ≤ length cursor.entry.rest) }
{
    let topic = cursor.plain_text()?;
    if topic.is_empty() {
        return None;
    }
    if !starts_identified(cursor.rest()) {
        return None;
    }
    Some(topic)
}

// Whether a Packet Identifier other than 0 is at the front of these bytes, and an empty property
// list is next.
#[inline(always)]
fn starts_identified(bytes: &[u8]) -> bool
    ensures { result ≡ starts_identified bytes.now }
{
    let [high, low, rest @ ..] = bytes else {
        return false;
    };
    if u16::from_be_bytes([*high, *low]) == 0 {
        return false;
    }
    after_empty_list(rest).is_some()
}

// Reads a PUBLISH of QoS 0, which breaks W08 if it has DUP 1 (MQTT 5.0, section 3.3.1.1).
#[inline(always)]
fn read_unacknowledged<'a>(
    cursor: Cursor<'a>,
    duplicate: bool,
    retain: bool,
) -> Result<Publish<'a>, ReadFault>
    ensures { Reads (λ p. publish (publish_view p)) result (read (if duplicate then bad_first_byte rules.W08 else publish_unacknowledged retain) cursor.entry) }
{
    if duplicate {
        return Err(ReadFault::Broken {
            at: 0,
            rule: PacketRule::W08,
        });
    }
    read_at_most_once(cursor, retain)
}

// Reads a PUBLISH of QoS 0 and DUP 0: it has no Packet Identifier (MQTT 5.0, section 3.3.2.2).
#[inline(always)]
fn read_at_most_once<'a>(mut cursor: Cursor<'a>, retain: bool) -> Result<Publish<'a>, ReadFault>
    ensures { Reads (λ p. publish (publish_view p)) result (read (publish_unacknowledged retain) cursor.entry) }
{
    let topic = topic_name(&mut cursor)?;
    let properties = properties_for(&mut cursor, topic)?;
    Ok(Publish {
        duplicate: false,
        qos: Qos::AtMostOnce,
        retain,
        topic,
        identifier: None,
        properties,
        payload: cursor.rest(),
    })
}

// Reads a PUBLISH of QoS 1 or 2: it has a Packet Identifier (MQTT 5.0, section 3.3.2.2).
#[inline(always)]
fn read_acknowledged<'a>(
    mut cursor: Cursor<'a>,
    duplicate: bool,
    qos: Qos,
    retain: bool,
) -> Result<Publish<'a>, ReadFault>
    ensures { Reads (λ p. publish (publish_view p)) result (read (publish_acknowledged duplicate qos retain) cursor.entry) }
{
    let topic = topic_name(&mut cursor)?;
    let identifier = packet_identifier(&mut cursor)?;
    let properties = properties_for(&mut cursor, topic)?;
    Ok(Publish {
        duplicate,
        qos,
        retain,
        topic,
        identifier: Some(identifier),
        properties,
        payload: cursor.rest(),
    })
}

/// Whether a PUBLISH has a Topic Name, or a Topic Alias that stands for it (MQTT 5.0, section
/// 3.3.2.3.4).
#[inline(always)]
pub fn names_topic(topic: &str, properties: &Props<'_>) -> bool
    ensures { result ≡ names_topic topic.now properties.now.items }
{
    !topic.is_empty() || properties.get_topic_alias().is_some()
}

// The property list of a PUBLISH on this topic.
#[inline(always)]
fn properties_for<'a>(cursor: &mut Cursor<'a>, topic: &str) -> Result<Props<'a>, ReadFault>
    ensures list { ReadsField (λ list. list.items) result (read_field (properties places.Publish) (alias_objection topic.now) cursor.old) cursor.new }
    ensures place { IfOk result (λ list. list ≡ listed places.Publish list.items) }
{
    let at = cursor.at();
    let properties = property_list(cursor, Place::Publish)?;
    if !names_topic(topic, &properties) {
        return Err(ReadFault::Broken {
            at,
            rule: PacketRule::W21,
        });
    }
    Ok(properties)
}
