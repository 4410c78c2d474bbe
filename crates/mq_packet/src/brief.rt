//! Packets in their shortest form, which are most packets of a log: a PUBLISH with no properties,
//! an acknowledgement that is no more than a Packet Identifier, PINGREQ and PINGRESP.
//!
//! Each is decoded by a function in which no other packet is possible, so that it takes no stack
//! for others.

ghost use Rattle.std.specs.Prelude.{◌≡◌, ◌≤◌, ◌<◌, IfSome, is_some, Ok, Some, length};
ghost use Rattle.mq_packet.specs.declared.packet.Packet.TheVariants as packets;
ghost use Rattle.mq_packet.specs.Brief.{has_no_properties, is_brief, is_brief_identified, is_brief_acknowledgement, is_ping};
ghost use Rattle.mq_packet.specs.FirstBytes.{flags_in};
ghost use Rattle.mq_packet.specs.Entries.{none_listed, acknowledgement_place};
ghost use Rattle.mq_packet.specs.Decoding.{decoded};
ghost use Rattle.mq_packet.specs.Reading.{view, HasReadLen};
ghost use Rattle.mq_packet.specs.Sizes.{remaining_length};

use crate::first_bytes::{PINGREQ, PINGRESP, PUBACK, PUBCOMP, PUBREC, PUBREL, flags};
use crate::header::header_len;
use crate::packet::{Acknowledgement, AcknowledgementKind, Packet, Publish, Qos};
use crate::protocol::{DUP, QOS, QOS_ONE, RETAIN};
use crate::reading::{SUCCESS, brief_topic, identified_topic};
use mq_props::{Place, Props, after_empty_list};
use mq_wire::Cursor;

/// Whether the body of a PUBLISH of QoS 0 has a Topic Name that isn't cut short, and no properties
/// (MQTT 5.0, section 3.3.2).
#[inline(always)]
pub fn has_no_properties(body: &[u8]) -> bool
    requires { length body.now ≤ 268435455 }
    ensures { result ≡ has_no_properties body.now }
{
    let mut cursor = Cursor::new(body);
    match cursor.binary() {
        Ok(_) => after_empty_list(cursor.rest()).is_some(),
        Err(_) => false,
    }
}

/// The PUBLISH that has this first byte and this body, if it has QoS 0, a plain Topic Name that
/// isn't empty, and no properties, as most have: the packet that [`decode`](crate::decode) returns
/// for them. `None` for any other packet, and for a fault.
#[inline(always)]
pub fn decode_brief_publish<'a>(first: u8, body: &'a [u8]) -> Option<Publish<'a>>
    requires from { 48 ≤ first }
    requires to { first < 64 }
    requires bound { length body.now ≤ 268435455 }
    ensures brief { is_some result ≡ is_brief (flags_in first) body.now }
    ensures exact { IfSome result (λ publish. decoded first body.now ≡ Ok (view (packets.Publish publish))) }
    ensures size { IfSome result (λ publish. remaining_length (packets.Publish publish) ≡ length body.now) }
{
    read_brief_body(first, body)
}

// Does the work of `decode_brief_publish`, whose clause `size` follows from this contract. Besides
// the Topic Name three bytes precede the payload: the name's length, and the empty property list.
#[inline(always)]
#[tactic(auto, unfolding(crate::specs::Decoding::decoded, crate::specs::Decoding::body_start))]
fn read_brief_body<'a>(first: u8, body: &'a [u8]) -> Option<Publish<'a>>
    requires from { 48 ≤ first }
    requires to { first < 64 }
    requires bound { length body.now ≤ 268435455 }
    ensures brief { is_some result ≡ is_brief (flags_in first) body.now }
    ensures exact { IfSome result (λ publish. decoded first body.now ≡ Ok (view (packets.Publish publish))) }
{
    // Properties are looked for first, so that the Topic Name of a packet that has some isn't
    // checked twice.
    if !has_no_properties(body) {
        return None;
    }
    let flags = flags(first);
    let cursor = Cursor::starting_at(body, header_len(body.len() as u32));
    let topic = brief_topic(flags, cursor)?;
    Some(Publish {
        duplicate: false,
        qos: Qos::AtMostOnce,
        retain: flags & RETAIN != 0,
        topic,
        identifier: None,
        properties: Props::empty(Place::Publish),
        payload: &body[topic.len() + 3..],
    })
}

/// The PUBLISH that has this first byte and this body, if it has QoS 1 or 2, a plain Topic Name
/// that isn't empty, a Packet Identifier other than 0, and no properties, as most have: the packet
/// that [`decode`](crate::decode) returns for them. `None` for any other packet, and for a fault.
#[inline(always)]
pub fn decode_identified_publish<'a>(first: u8, body: &'a [u8]) -> Option<Publish<'a>>
    requires from { 48 ≤ first }
    requires to { first < 64 }
    requires bound { length body.now ≤ 268435455 }
    ensures brief { is_some result ≡ is_brief_identified (flags_in first) body.now }
    ensures exact { IfSome result (λ publish. decoded first body.now ≡ Ok (view (packets.Publish publish))) }
    ensures size { IfSome result (λ publish. remaining_length (packets.Publish publish) ≡ length body.now) }
{
    read_identified_body(first, body)
}

// Does the work of `decode_identified_publish`, whose clause `size` follows from this contract.
// Besides the Topic Name five bytes precede the payload, as the Packet Identifier is among them.
#[inline(always)]
#[tactic(auto, unfolding(crate::specs::Decoding::decoded, crate::specs::Decoding::body_start))]
fn read_identified_body<'a>(first: u8, body: &'a [u8]) -> Option<Publish<'a>>
    requires from { 48 ≤ first }
    requires to { first < 64 }
    requires bound { length body.now ≤ 268435455 }
    ensures brief { is_some result ≡ is_brief_identified (flags_in first) body.now }
    ensures exact { IfSome result (λ publish. decoded first body.now ≡ Ok (view (packets.Publish publish))) }
{
    let flags = flags(first);
    let cursor = Cursor::starting_at(body, header_len(body.len() as u32));
    let topic = identified_topic(flags, cursor)?;
    let len = topic.len();
    let qos = if flags & QOS == QOS_ONE {
        Qos::AtLeastOnce
    } else {
        Qos::ExactlyOnce
    };
    Some(Publish {
        duplicate: flags & DUP != 0,
        qos,
        retain: flags & RETAIN != 0,
        topic,
        identifier: Some(u16::from_be_bytes([body[len + 2], body[len + 3]])),
        properties: Props::empty(Place::Publish),
        payload: &body[len + 5..],
    })
}

/// The PUBACK, PUBREC, PUBREL or PUBCOMP that has this first byte and this body, if the body is no
/// more than a Packet Identifier other than 0 (MQTT 5.0, sections 3.4 to 3.7): the packet that
/// [`decode`](crate::decode) returns for them. `None` for any other packet, and for a fault.
#[inline(always)]
pub fn decode_brief_acknowledgement<'a>(first: u8, body: &[u8]) -> Option<Packet<'a>>
    ensures brief { is_some result ≡ is_brief_acknowledgement first body.now }
    ensures exact { IfSome result (λ packet. decoded first body.now ≡ Ok (view packet)) }
    ensures size { IfSome result (λ packet. remaining_length packet ≡ length body.now) }
{
    read_brief_acknowledgement(first, body)
}

// Does the work of `decode_brief_acknowledgement`, whose clause `size` follows from this contract.
#[inline(always)]
#[tactic(auto, using(crate::proofs::BriefLaws::brief_acknowledgement), unfolding(crate::specs::Decoding::decoded, crate::specs::Decoding::body_start))]
fn read_brief_acknowledgement<'a>(first: u8, body: &[u8]) -> Option<Packet<'a>>
    ensures brief { is_some result ≡ is_brief_acknowledgement first body.now }
    ensures exact { IfSome result (λ packet. decoded first body.now ≡ Ok (view packet)) }
    ensures read_len { IfSome result (λ packet. HasReadLen (length body.now) packet) }
{
    let [high, low] = *body else {
        return None;
    };
    let identifier = u16::from_be_bytes([high, low]);
    if identifier == 0 {
        return None;
    }
    match first {
        PUBACK => Some(Packet::Puback(success(identifier, AcknowledgementKind::Puback))),
        PUBREC => Some(Packet::Pubrec(success(identifier, AcknowledgementKind::Pubrec))),
        PUBREL => Some(Packet::Pubrel(success(identifier, AcknowledgementKind::Pubrel))),
        PUBCOMP => Some(Packet::Pubcomp(success(identifier, AcknowledgementKind::Pubcomp))),
        _ => None,
    }
}

// An acknowledgement that was read as no more than a Packet Identifier.
#[inline(always)]
fn success<'a>(identifier: u16, kind: AcknowledgementKind) -> Acknowledgement<'a>
    ensures { result ≡ record { identifier = identifier; code = 0; properties = none_listed (acknowledgement_place kind); read_len = Some 2 } }
{
    Acknowledgement {
        identifier,
        code: SUCCESS,
        properties: Props::empty(kind.place()),
        read_len: Some(2),
    }
}

/// The PINGREQ or PINGRESP that has this first byte and this body, which is empty (MQTT 5.0,
/// sections 3.12 and 3.13): the packet that [`decode`](crate::decode) returns for them. `None` for
/// any other packet, and for a fault.
#[inline(always)]
pub fn decode_ping<'a>(first: u8, body: &[u8]) -> Option<Packet<'a>>
    ensures brief { is_some result ≡ is_ping first body.now }
    ensures exact { IfSome result (λ packet. decoded first body.now ≡ Ok (view packet)) }
    ensures size { IfSome result (λ packet. remaining_length packet ≡ length body.now) }
{
    read_ping(first, body)
}

// Does the work of `decode_ping`, whose clause `size` follows from this contract.
#[inline(always)]
#[tactic(auto, unfolding(crate::specs::Decoding::decoded, crate::specs::Decoding::body_start))]
fn read_ping<'a>(first: u8, body: &[u8]) -> Option<Packet<'a>>
    ensures brief { is_some result ≡ is_ping first body.now }
    ensures exact { IfSome result (λ packet. decoded first body.now ≡ Ok (view packet)) }
    ensures read_len { IfSome result (λ packet. HasReadLen (length body.now) packet) }
{
    if !body.is_empty() {
        return None;
    }
    match first {
        PINGREQ => Some(Packet::Pingreq),
        PINGRESP => Some(Packet::Pingresp),
        _ => None,
    }
}
