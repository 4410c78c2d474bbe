//! How many bytes the body of a packet has when it is written.

ghost use Rattle.std.specs.Prelude.{◌≡◌, ◌+◌, ◌≤◌, sum, length};
ghost use Rattle.std.specs.Option.{option_map};
ghost use Rattle.mq_wire.specs.Spellings.{two_bytes_spelling, text_spelling, binary_spelling};
ghost use Rattle.mq_packet.specs.Reading.{view, will_view};
ghost use Rattle.mq_packet.specs.Sizes.{within};
ghost use Rattle.mq_packet.specs.Canonical.{list_spelling, spelling_if, will_spelling, reason_spelling, acknowledgement_body, request_body, answer_body, canonical_body};

use super::fields::is_empty_auth;
use crate::packet::{
    Acknowledgement, Answer, Connack, Connect, Packet, Publish, ReasonPacket, Request, Will,
};
use mq_props::Props;
use mq_wire::{MAX_VARINT, varint_len};

// The sum of the parts, if a Remaining Length can say it.
#[inline(always)]
fn sum_within(parts: &[usize]) -> Option<u32>
    ensures { result ≡ within (sum parts.now) }
{
    let mut total = 0;
    for part in parts {
        if *part > MAX_VARINT as usize - total {
            return None;
        }
        total += *part;
    }
    Some(total as u32)
}

// How many bytes a property list has, its length before it included (MQTT 5.0, section 2.2.2).
#[inline(always)]
#[tactic(auto, using(crate::proofs::SizeLaws::list_length))]
fn list_len(list: &Props<'_>) -> usize
    ensures len { result ≡ length (list_spelling list.now.items) }
    ensures bound { result ≤ 268435459 }
{
    let bytes = list.as_bytes();
    varint_len(bytes.len() as u32) + bytes.len()
}

// How many bytes a text has, with the two of its length (MQTT 5.0, section 1.5.4).
#[inline(always)]
fn text_len(text: &str) -> usize
    ensures { result ≡ length (text_spelling text.now) }
{
    2 + text.len()
}

// How many bytes binary data has, with the two of its length (MQTT 5.0, section 1.5.6).
fn binary_len(bytes: &[u8]) -> usize
    ensures { result ≡ length (binary_spelling bytes.now) }
{
    2 + bytes.len()
}

// How many bytes a text has if it is there; a missing one has no length either.
fn text_len_if_there(text: Option<&str>) -> usize
    ensures { result ≡ length (spelling_if text_spelling (option_map (λ t. t.now) text.entry)) }
{
    match text {
        Some(text) => text_len(text),
        None => 0,
    }
}

// How many bytes binary data has if it is there; missing data has no length either.
fn binary_len_if_there(bytes: Option<&[u8]>) -> usize
    ensures { result ≡ length (spelling_if binary_spelling (option_map (λ b. b.now) bytes.entry)) }
{
    match bytes {
        Some(bytes) => binary_len(bytes),
        None => 0,
    }
}

// How many bytes a Packet Identifier has; a PUBLISH of QoS 0 has none (MQTT 5.0, section 3.3.2.2).
#[inline(always)]
fn identifier_len_if_there(identifier: Option<u16>) -> usize
    ensures { result ≡ length (spelling_if two_bytes_spelling identifier) }
{
    match identifier {
        Some(_) => 2,
        None => 0,
    }
}

// How many bytes the properties, the topic and the payload of a Will have, each with its length
// before it; 0 if there is no Will (MQTT 5.0, section 3.1.3).
#[tactic(auto, using(crate::proofs::SizeLaws::will_length))]
fn will_lens(will: &Option<Will<'_>>) -> (usize, usize, usize)
    ensures { result.0 + result.1 + result.2 ≡ length (spelling_if will_spelling (option_map will_view will.now)) }
{
    match will {
        Some(will) => (
            list_len(&will.properties),
            text_len(will.topic),
            binary_len(will.payload),
        ),
        None => (0, 0, 0),
    }
}

// How many bytes a Reason Code and properties have at a packet's end: a Reason Code of 0x00 is left
// out if no properties follow, and an empty list always (MQTT 5.0, sections 3.4.2.1 and 3.4.2.2.1).
#[tactic(auto, using(crate::proofs::ReasonLaws::reason_by))]
fn reason_len(code: u8, list: &Props<'_>) -> usize
    ensures { result ≡ length (reason_spelling code list.now.items) }
{
    if !list.as_bytes().is_empty() {
        return 1 + list_len(list);
    }
    if code == 0 { 0 } else { 1 }
}

// How many bytes the body of a CONNECT has, if a Remaining Length can say it. Ten are those from
// the Protocol Name to the Keep Alive (MQTT 5.0, section 3.1.2).
fn connect_len(packet: &Connect<'_>) -> Option<u32>
    ensures { result ≡ within (length (canonical_body (view (Packet.Connect packet.now)))) }
{
    let will = will_lens(&packet.will);
    sum_within(&[
        10,
        list_len(&packet.properties),
        text_len(packet.client_identifier),
        will.0,
        will.1,
        will.2,
        text_len_if_there(packet.user_name),
        binary_len_if_there(packet.password),
    ])
}

// The same for a CONNACK: two are its flags and its Reason Code (MQTT 5.0, section 3.2.2).
fn connack_len(packet: &Connack<'_>) -> Option<u32>
    ensures { result ≡ within (length (canonical_body (view (Packet.Connack packet.now)))) }
{
    sum_within(&[2, list_len(&packet.properties)])
}

// The same for a PUBLISH, whose payload has no length before it (MQTT 5.0, section 3.3.3).
#[inline(always)]
fn publish_len(packet: &Publish<'_>) -> Option<u32>
    ensures { result ≡ within (length (canonical_body (view (Packet.Publish packet.now)))) }
{
    sum_within(&[
        text_len(packet.topic),
        identifier_len_if_there(packet.identifier),
        list_len(&packet.properties),
        packet.payload.len(),
    ])
}

// The same for a PUBACK, PUBREC, PUBREL or PUBCOMP: two are its Packet Identifier.
fn acknowledgement_len(packet: &Acknowledgement<'_>) -> Option<u32>
    ensures { result ≡ within (length (acknowledgement_body packet.now.identifier packet.now.code packet.now.properties.items)) }
{
    sum_within(&[2, reason_len(packet.code, &packet.properties)])
}

// The same for a SUBSCRIBE or UNSUBSCRIBE, whose filters are held as they are spelled.
fn request_len(packet: &Request<'_>) -> Option<u32>
    ensures { result ≡ within (length (request_body packet.now.identifier packet.now.properties.items packet.now.filters)) }
{
    sum_within(&[
        2,
        list_len(&packet.properties),
        packet.filters.as_bytes().len(),
    ])
}

// The same for a SUBACK or UNSUBACK, in which each Reason Code is a byte.
fn answer_len(packet: &Answer<'_>) -> Option<u32>
    ensures { result ≡ within (length (answer_body packet.now.identifier packet.now.properties.items packet.now.codes)) }
{
    sum_within(&[
        2,
        list_len(&packet.properties),
        packet.codes.as_bytes().len(),
    ])
}

// The same for a DISCONNECT, which may be empty (MQTT 5.0, section 3.14.2.1).
#[tactic(auto, unfolding(crate::specs::Canonical::disconnect_body))]
fn disconnect_len(packet: &ReasonPacket<'_>) -> Option<u32>
    ensures { result ≡ within (length (canonical_body (view (Packet.Disconnect packet.now)))) }
{
    sum_within(&[reason_len(packet.code, &packet.properties)])
}

// The same for an AUTH: none, or its Reason Code and its property list, even an empty one.
fn auth_len(packet: &ReasonPacket<'_>) -> Option<u32>
    ensures { result ≡ within (length (canonical_body (view (Packet.Auth packet.now)))) }
{
    if is_empty_auth(packet) {
        return Some(0);
    }
    sum_within(&[1, list_len(&packet.properties)])
}

/// How many bytes the body has, if a Remaining Length can say it (MQTT 5.0, section 2.1.4).
#[inline(always)]
pub fn body_len(packet: &Packet<'_>) -> Option<u32>
    ensures { result ≡ within (length (canonical_body (view packet.now))) }
{
    match packet {
        Packet::Connect(packet) => connect_len(packet),
        Packet::Connack(packet) => connack_len(packet),
        Packet::Publish(packet) => publish_len(packet),
        Packet::Puback(packet)
        | Packet::Pubrec(packet)
        | Packet::Pubrel(packet)
        | Packet::Pubcomp(packet) => acknowledgement_len(packet),
        Packet::Subscribe(packet) | Packet::Unsubscribe(packet) => request_len(packet),
        Packet::Suback(packet) | Packet::Unsuback(packet) => answer_len(packet),
        Packet::Pingreq | Packet::Pingresp => Some(0),
        Packet::Disconnect(packet) => disconnect_len(packet),
        Packet::Auth(packet) => auth_len(packet),
    }
}
