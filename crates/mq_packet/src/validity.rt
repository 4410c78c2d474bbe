//! Whether some bytes spell a packet.

ghost use Rattle.std.specs.Prelude.{◌≡◌, ◌↔◌, ℕ, true, List};
ghost use Rattle.std.specs.List.{list_all};
ghost use Rattle.std.specs.Option.{option_map};
ghost use Rattle.mq_props.specs.Table.{place_number, same_place};
ghost use Rattle.mq_packet.specs.Spelled.{IsSpelled};
ghost use Rattle.mq_packet.specs.Formats.{is_code};
ghost use Rattle.mq_packet.specs.Reading.{view, will_view};
ghost use Rattle.mq_packet.specs.Valid.{is_text, is_binary, if_there, fits_qos, valid_will, valid_acknowledgement, valid_filters, valid_request, valid_answer, valid_reason_packet, valid};

use crate::codes::{CONNACK_CODES, is_code};
use crate::facts::packet_facts;
use crate::filters::Filters;
use crate::packet::{
    Acknowledgement, AcknowledgementKind, Answer, Connack, Connect, Packet, Publish, Qos,
    ReasonPacket, ReasonPacketKind, Request, RequestKind, Will,
};
use crate::reading::names_topic;
use mq_props::{Place, Props};
use mq_topic::check_name;
use mq_wire::{MAX_LEN, contains_nul};

// Whether a text has at most 65,535 bytes, and no U+0000 (MQTT 5.0, section 1.5.4).
fn is_text(text: &str) -> bool
    ensures { result ≡ is_text text.now }
{
    text.len() <= MAX_LEN && !contains_nul(text)
}

// Whether binary data has at most 65,535 bytes (MQTT 5.0, section 1.5.6).
fn is_binary(bytes: &[u8]) -> bool
    ensures { result ≡ is_binary bytes.now }
{
    bytes.len() <= MAX_LEN
}

// The number of a place, by which the definitions compare places.
fn number(place: Place) -> u8
    ensures { result ≡ place_number place }
{
    place as u8
}

// Whether a property list is of this place, and so has only properties that may be there.
fn belongs_to(list: &Props<'_>, place: Place) -> bool
    ensures { result ≡ same_place list.now.place place }
{
    number(list.place()) == number(place)
}

// Whether each Reason Code is in the packet's table; there may be none (MQTT 5.0, section 2.4).
fn are_codes(table: &[u8], codes: &[u8]) -> bool
    ensures { result ≡ list_all (is_code table.now) codes.now }
{
    codes.iter().all(|code| is_code(table, *code))
}

// Whether a CONNECT can have this Will, in whose topic wildcards aren't looked for.
#[tactic(auto, unfolding(crate::specs::Valid::valid_will))]
fn is_will(will: &Will<'_>) -> bool
    ensures { result ≡ valid_will (will_view will.now) }
{
    belongs_to(&will.properties, Place::Will) && is_text(will.topic) && is_binary(will.payload)
}

// Whether a CONNECT can have this Will, if it has one.
fn is_will_if_there(will: &Option<Will<'_>>) -> bool
    ensures { result ≡ if_there valid_will (option_map will_view will.now) }
{
    match will {
        Some(will) => is_will(will),
        None => true,
    }
}

// Whether a text that may be missing, as a User Name may, is valid if it is there.
fn is_text_if_there(text: Option<&str>) -> bool
    ensures { result ≡ if_there is_text (option_map (λ t. t.now) text.entry) }
{
    match text {
        Some(text) => is_text(text),
        None => true,
    }
}

// Whether binary data that may be missing, as a Password may, is valid if it is there.
fn is_binary_if_there(bytes: Option<&[u8]>) -> bool
    ensures { result ≡ if_there is_binary (option_map (λ b. b.now) bytes.entry) }
{
    match bytes {
        Some(bytes) => is_binary(bytes),
        None => true,
    }
}

// Whether some bytes spell this CONNECT (MQTT 5.0, section 3.1).
#[tactic(auto, unfolding(crate::specs::Valid::valid_connect))]
fn is_connect(packet: &Connect<'_>) -> bool
    ensures { result ≡ valid (view (Packet.Connect packet.now)) }
{
    belongs_to(&packet.properties, Place::Connect)
        && is_text(packet.client_identifier)
        && is_will_if_there(&packet.will)
        && is_text_if_there(packet.user_name)
        && is_binary_if_there(packet.password)
}

// Whether some bytes spell this CONNACK (MQTT 5.0, section 3.2).
#[tactic(auto, unfolding(crate::specs::Valid::valid_connack))]
fn is_connack(packet: &Connack<'_>) -> bool
    ensures { result ≡ valid (view (Packet.Connack packet.now)) }
{
    belongs_to(&packet.properties, Place::Connack) && is_code(&CONNACK_CODES, packet.code)
}

// A PUBLISH has a Packet Identifier exactly if its QoS is above 0, and only then may it have DUP 1.
fn fits_qos(duplicate: bool, qos: Qos, identifier: Option<u16>) -> bool
    ensures { result ≡ fits_qos duplicate qos identifier }
{
    match (qos, identifier) {
        (Qos::AtMostOnce, None) => !duplicate,
        (Qos::AtMostOnce, Some(_)) => false,
        (_, None) => false,
        (_, Some(identifier)) => identifier != 0,
    }
}

// Whether some bytes spell this PUBLISH (MQTT 5.0, section 3.3).
#[tactic(auto, unfolding(crate::specs::Valid::valid_publish))]
fn is_publish(packet: &Publish<'_>) -> bool
    ensures { result ≡ valid (view (Packet.Publish packet.now)) }
{
    belongs_to(&packet.properties, Place::Publish)
        && fits_qos(packet.duplicate, packet.qos, packet.identifier)
        && is_text(packet.topic)
        && check_name(packet.topic)
        && names_topic(packet.topic, &packet.properties)
}

// Whether some bytes spell this DISCONNECT or AUTH (MQTT 5.0, sections 3.14 and 3.15).
#[tactic(auto, unfolding(crate::specs::Valid::valid_reason_packet))]
fn is_reason_packet(kind: ReasonPacketKind, packet: &ReasonPacket<'_>) -> bool
    ensures { result ≡ valid_reason_packet kind packet.now.code packet.now.properties }
{
    belongs_to(&packet.properties, kind.place()) && is_code(kind.codes(), packet.code)
}

// Whether some bytes spell this PUBACK, PUBREC, PUBREL or PUBCOMP (MQTT 5.0, sections 3.4 to 3.7).
#[tactic(auto, unfolding(crate::specs::Valid::valid_acknowledgement))]
fn is_acknowledgement(kind: AcknowledgementKind, packet: &Acknowledgement<'_>) -> bool
    ensures { result ≡ valid_acknowledgement kind packet.now.identifier packet.now.code packet.now.properties }
{
    belongs_to(&packet.properties, kind.place())
        && packet.identifier != 0
        && is_code(kind.codes(), packet.code)
}

// The filters have options exactly if they are asked for.
#[tactic(auto, using(crate::proofs::RequestLaws::filters_fit))]
fn are_filters(asks: bool, filters: &Filters<'_>) -> bool
    ensures { result ≡ valid_filters asks filters.now }
{
    filters.have_options() == asks
}

// Whether some bytes spell this SUBSCRIBE or UNSUBSCRIBE (MQTT 5.0, sections 3.8 and 3.10).
#[tactic(auto, unfolding(crate::specs::Valid::valid_request))]
fn is_request(kind: RequestKind, packet: &Request<'_>) -> bool
    ensures { result ≡ valid_request kind packet.now.identifier packet.now.properties packet.now.filters }
{
    belongs_to(&packet.properties, kind.place())
        && packet.identifier != 0
        && are_filters(kind.has_options(), &packet.filters)
}

// Whether some bytes spell this SUBACK or UNSUBACK (MQTT 5.0, sections 3.9 and 3.11).
#[tactic(auto, unfolding(crate::specs::Valid::valid_answer))]
fn is_answer(kind: RequestKind, packet: &Answer<'_>) -> bool
    ensures { result ≡ valid_answer kind packet.now.identifier packet.now.properties packet.now.codes }
{
    belongs_to(&packet.properties, kind.answer_place())
        && packet.identifier != 0
        && are_codes(kind.answer_codes(), packet.codes.as_bytes())
}

// Whether the fields pass the tests of the packet's type. `is_valid` proves that exactly then some
// bytes spell the packet.
fn passes(packet: &Packet<'_>) -> bool
    ensures { result ≡ valid (view packet.now) }
{
    match packet {
        Packet::Connect(packet) => is_connect(packet),
        Packet::Connack(packet) => is_connack(packet),
        Packet::Publish(packet) => is_publish(packet),
        Packet::Puback(packet) => is_acknowledgement(AcknowledgementKind::Puback, packet),
        Packet::Pubrec(packet) => is_acknowledgement(AcknowledgementKind::Pubrec, packet),
        Packet::Pubrel(packet) => is_acknowledgement(AcknowledgementKind::Pubrel, packet),
        Packet::Pubcomp(packet) => is_acknowledgement(AcknowledgementKind::Pubcomp, packet),
        Packet::Subscribe(packet) => is_request(RequestKind::Subscribe, packet),
        Packet::Suback(packet) => is_answer(RequestKind::Subscribe, packet),
        Packet::Unsubscribe(packet) => is_request(RequestKind::Unsubscribe, packet),
        Packet::Unsuback(packet) => is_answer(RequestKind::Unsubscribe, packet),
        Packet::Pingreq | Packet::Pingresp => true,
        Packet::Disconnect(packet) => is_reason_packet(ReasonPacketKind::Disconnect, packet),
        Packet::Auth(packet) => is_reason_packet(ReasonPacketKind::Auth, packet),
    }
}

/// Whether some bytes spell the packet (MQTT 5.0, sections 3.1 to 3.15): its property lists are
/// those of its type, its texts have at most 65,535 bytes and no U+0000, its binary data has at
/// most 65,535 bytes, its Packet Identifier isn't 0 and is there exactly if it must be, its Reason
/// Codes are of its type, its Topic Name has no wildcard and isn't missing, and its filters have
/// options exactly if it is a SUBSCRIBE. `decode` returns only such packets.
pub fn is_valid(packet: &Packet<'_>) -> bool
    ensures exact { result ≡ valid (view packet.now) }
    ensures spelled { (result ≡ true) ↔ ((first : ℕ) × (body : List ℕ) × IsSpelled first body (view packet.now)) }
{
    packet_facts(packet);
    passes(packet)
}
