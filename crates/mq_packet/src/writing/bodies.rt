//! Writing the bodies of packets, each its fields in their order (MQTT 5.0, sections 3.1 to 3.15).

ghost use Rattle.std.specs.Prelude.{◌≡◌, ◌+◌, ◌≤◌, ◌∷◌, ◌++◌, true, OnOk, OnErr, is_some, codes, vec_capacity};
ghost use Rattle.std.specs.Option.{option_map};
ghost use Rattle.mq_wire.specs.Spellings.{two_bytes_spelling, text_spelling, binary_spelling};
ghost use Rattle.mq_packet.specs.Reading.{view, will_view};
ghost use Rattle.mq_packet.specs.Growing.{LacksRoom};
ghost use Rattle.mq_packet.specs.Valid.{is_text, is_binary, if_there, valid_will, valid};
ghost use Rattle.mq_packet.specs.Canonical.{bit, will_flags, list_spelling, spelling_if, will_spelling, acknowledgement_body, request_body, answer_body, canonical_body};

use super::fields::{
    is_empty_auth, put_binary_if_there, put_code_and_list, put_identifier_if_there, put_list,
    put_reason, put_text_if_there, put_will_if_there,
};
use super::first::connect_flags;
use super::puts::{put_byte, put_bytes, put_number, put_string};
use crate::packet::{
    Acknowledgement, Answer, Connack, Connect, Packet, Publish, ReasonPacket, Request,
};
use crate::protocol::{PROTOCOL_NAME, PROTOCOL_VERSION};
use mq_wire::PutFault;

// The variable header of a CONNECT (MQTT 5.0, section 3.1.2).
#[tactic(auto, using(crate::proofs::GrowingLaws::lacks_first, crate::proofs::GrowingLaws::lacks_after, crate::proofs::GrowingLaws::lacks_byte, crate::proofs::GrowingLaws::lacks_after_byte))]
fn put_connect_header(out: &mut Vec<u8>, packet: &Connect<'_>) -> Result<(), PutFault>
    ensures ok { OnOk result (out.new.items ≡ out.old.items ++ (text_spelling (codes "MQTT") ++ (5 ∷ (bit 2 packet.now.clean_start + will_flags (option_map will_view packet.now.will) + bit 64 (is_some (option_map (λ b. b.now) packet.now.password)) + bit 128 (is_some (option_map (λ t. t.now) packet.now.user_name))) ∷ (two_bytes_spelling packet.now.keep_alive ++ list_spelling packet.now.properties.items)))) }
    ensures capacity { vec_capacity out.old ≤ vec_capacity out.new }
    ensures err { OnErr result (LacksRoom (vec_capacity out.old) out.old.items (text_spelling (codes "MQTT") ++ (5 ∷ (bit 2 packet.now.clean_start + will_flags (option_map will_view packet.now.will) + bit 64 (is_some (option_map (λ b. b.now) packet.now.password)) + bit 128 (is_some (option_map (λ t. t.now) packet.now.user_name))) ∷ (two_bytes_spelling packet.now.keep_alive ++ list_spelling packet.now.properties.items)))) }
{
    put_string(out, PROTOCOL_NAME)?;
    put_byte(out, PROTOCOL_VERSION)?;
    put_byte(out, connect_flags(packet))?;
    put_number(out, packet.keep_alive)?;
    put_list(out, &packet.properties)
}

// The payload of a CONNECT (MQTT 5.0, section 3.1.3).
#[tactic(auto, using(crate::proofs::GrowingLaws::lacks_first, crate::proofs::GrowingLaws::lacks_after, crate::proofs::GrowingLaws::lacks_byte, crate::proofs::GrowingLaws::lacks_after_byte))]
fn put_connect_payload(out: &mut Vec<u8>, packet: &Connect<'_>) -> Result<(), PutFault>
    requires client_identifier { is_text packet.now.client_identifier.now ≡ true }
    requires will { if_there valid_will (option_map will_view packet.now.will) ≡ true }
    requires user_name { if_there is_text (option_map (λ t. t.now) packet.now.user_name) ≡ true }
    requires password { if_there is_binary (option_map (λ b. b.now) packet.now.password) ≡ true }
    ensures ok { OnOk result (out.new.items ≡ out.old.items ++ (text_spelling packet.now.client_identifier.now ++ (spelling_if will_spelling (option_map will_view packet.now.will) ++ (spelling_if text_spelling (option_map (λ t. t.now) packet.now.user_name) ++ spelling_if binary_spelling (option_map (λ b. b.now) packet.now.password))))) }
    ensures capacity { vec_capacity out.old ≤ vec_capacity out.new }
    ensures err { OnErr result (LacksRoom (vec_capacity out.old) out.old.items (text_spelling packet.now.client_identifier.now ++ (spelling_if will_spelling (option_map will_view packet.now.will) ++ (spelling_if text_spelling (option_map (λ t. t.now) packet.now.user_name) ++ spelling_if binary_spelling (option_map (λ b. b.now) packet.now.password))))) }
{
    put_string(out, packet.client_identifier)?;
    put_will_if_there(out, &packet.will)?;
    put_text_if_there(out, packet.user_name)?;
    put_binary_if_there(out, packet.password)
}

// The body of a CONNECT: its variable header, and then its payload (MQTT 5.0, section 3.1).
#[tactic(auto, using(crate::proofs::GrowingLaws::lacks_first, crate::proofs::GrowingLaws::lacks_after, crate::proofs::GrowingLaws::lacks_byte, crate::proofs::GrowingLaws::lacks_after_byte), unfolding(crate::specs::Canonical::connect_body))]
fn put_connect(out: &mut Vec<u8>, packet: &Connect<'_>) -> Result<(), PutFault>
    requires { valid (view (Packet.Connect packet.now)) ≡ true }
    ensures ok { OnOk result (out.new.items ≡ out.old.items ++ canonical_body (view (Packet.Connect packet.now))) }
    ensures capacity { vec_capacity out.old ≤ vec_capacity out.new }
    ensures err { OnErr result (LacksRoom (vec_capacity out.old) out.old.items (canonical_body (view (Packet.Connect packet.now)))) }
{
    put_connect_header(out, packet)?;
    put_connect_payload(out, packet)
}

// The body of a CONNACK (MQTT 5.0, section 3.2), whose first byte has Session Present in bit 0.
#[tactic(auto, using(crate::proofs::GrowingLaws::lacks_first, crate::proofs::GrowingLaws::lacks_after, crate::proofs::GrowingLaws::lacks_byte, crate::proofs::GrowingLaws::lacks_after_byte), unfolding(crate::specs::Canonical::connack_body))]
fn put_connack(out: &mut Vec<u8>, packet: &Connack<'_>) -> Result<(), PutFault>
    ensures ok { OnOk result (out.new.items ≡ out.old.items ++ canonical_body (view (Packet.Connack packet.now))) }
    ensures capacity { vec_capacity out.old ≤ vec_capacity out.new }
    ensures err { OnErr result (LacksRoom (vec_capacity out.old) out.old.items (canonical_body (view (Packet.Connack packet.now)))) }
{
    put_byte(out, u8::from(packet.session_present))?;
    put_byte(out, packet.code)?;
    put_list(out, &packet.properties)
}

// The body of a PUBLISH, whose payload is all that follows its properties (MQTT 5.0, section 3.3).
#[tactic(auto, using(crate::proofs::GrowingLaws::lacks_first, crate::proofs::GrowingLaws::lacks_after, crate::proofs::GrowingLaws::lacks_byte, crate::proofs::GrowingLaws::lacks_after_byte), unfolding(crate::specs::Canonical::publish_body))]
fn put_publish(out: &mut Vec<u8>, packet: &Publish<'_>) -> Result<(), PutFault>
    requires { valid (view (Packet.Publish packet.now)) ≡ true }
    ensures ok { OnOk result (out.new.items ≡ out.old.items ++ canonical_body (view (Packet.Publish packet.now))) }
    ensures capacity { vec_capacity out.old ≤ vec_capacity out.new }
    ensures err { OnErr result (LacksRoom (vec_capacity out.old) out.old.items (canonical_body (view (Packet.Publish packet.now)))) }
{
    put_string(out, packet.topic)?;
    put_identifier_if_there(out, packet.identifier)?;
    put_list(out, &packet.properties)?;
    put_bytes(out, packet.payload)
}

// The shortest body of a PUBACK, PUBREC, PUBREL or PUBCOMP (MQTT 5.0, sections 3.4 to 3.7).
#[tactic(auto, using(crate::proofs::GrowingLaws::lacks_first, crate::proofs::GrowingLaws::lacks_after, crate::proofs::GrowingLaws::lacks_byte, crate::proofs::GrowingLaws::lacks_after_byte), unfolding(crate::specs::Canonical::acknowledgement_body))]
fn put_acknowledgement(out: &mut Vec<u8>, packet: &Acknowledgement<'_>) -> Result<(), PutFault>
    ensures ok { OnOk result (out.new.items ≡ out.old.items ++ acknowledgement_body packet.now.identifier packet.now.code packet.now.properties.items) }
    ensures capacity { vec_capacity out.old ≤ vec_capacity out.new }
    ensures err { OnErr result (LacksRoom (vec_capacity out.old) out.old.items (acknowledgement_body packet.now.identifier packet.now.code packet.now.properties.items)) }
{
    put_number(out, packet.identifier)?;
    put_reason(out, packet.code, &packet.properties)
}

// The body of a SUBSCRIBE or UNSUBSCRIBE (MQTT 5.0, sections 3.8 and 3.10).
#[tactic(auto, using(crate::proofs::GrowingLaws::lacks_first, crate::proofs::GrowingLaws::lacks_after, crate::proofs::GrowingLaws::lacks_byte, crate::proofs::GrowingLaws::lacks_after_byte), unfolding(crate::specs::Canonical::request_body))]
fn put_request(out: &mut Vec<u8>, packet: &Request<'_>) -> Result<(), PutFault>
    ensures ok { OnOk result (out.new.items ≡ out.old.items ++ request_body packet.now.identifier packet.now.properties.items packet.now.filters) }
    ensures capacity { vec_capacity out.old ≤ vec_capacity out.new }
    ensures err { OnErr result (LacksRoom (vec_capacity out.old) out.old.items (request_body packet.now.identifier packet.now.properties.items packet.now.filters)) }
{
    put_number(out, packet.identifier)?;
    put_list(out, &packet.properties)?;
    put_bytes(out, packet.filters.as_bytes())
}

// The body of a SUBACK or UNSUBACK (MQTT 5.0, sections 3.9 and 3.11).
#[tactic(auto, using(crate::proofs::GrowingLaws::lacks_first, crate::proofs::GrowingLaws::lacks_after, crate::proofs::GrowingLaws::lacks_byte, crate::proofs::GrowingLaws::lacks_after_byte), unfolding(crate::specs::Canonical::answer_body))]
fn put_answer(out: &mut Vec<u8>, packet: &Answer<'_>) -> Result<(), PutFault>
    ensures ok { OnOk result (out.new.items ≡ out.old.items ++ answer_body packet.now.identifier packet.now.properties.items packet.now.codes) }
    ensures capacity { vec_capacity out.old ≤ vec_capacity out.new }
    ensures err { OnErr result (LacksRoom (vec_capacity out.old) out.old.items (answer_body packet.now.identifier packet.now.properties.items packet.now.codes)) }
{
    put_number(out, packet.identifier)?;
    put_list(out, &packet.properties)?;
    put_bytes(out, packet.codes.as_bytes())
}

// The shortest body of a DISCONNECT (MQTT 5.0, section 3.14.2).
#[tactic(auto, unfolding(crate::specs::Canonical::disconnect_body))]
fn put_disconnect(out: &mut Vec<u8>, packet: &ReasonPacket<'_>) -> Result<(), PutFault>
    ensures ok { OnOk result (out.new.items ≡ out.old.items ++ canonical_body (view (Packet.Disconnect packet.now))) }
    ensures capacity { vec_capacity out.old ≤ vec_capacity out.new }
    ensures err { OnErr result (LacksRoom (vec_capacity out.old) out.old.items (canonical_body (view (Packet.Disconnect packet.now)))) }
{
    put_reason(out, packet.code, &packet.properties)
}

// The body of an AUTH. Its Reason Code and its property list are left out only together (MQTT 5.0,
// section 3.15.2.1).
#[tactic(auto, using(crate::proofs::GrowingLaws::lacks_first, crate::proofs::GrowingLaws::lacks_after, crate::proofs::GrowingLaws::lacks_byte, crate::proofs::GrowingLaws::lacks_after_byte))]
fn put_auth(out: &mut Vec<u8>, packet: &ReasonPacket<'_>) -> Result<(), PutFault>
    ensures ok { OnOk result (out.new.items ≡ out.old.items ++ canonical_body (view (Packet.Auth packet.now))) }
    ensures capacity { vec_capacity out.old ≤ vec_capacity out.new }
    ensures err { OnErr result (LacksRoom (vec_capacity out.old) out.old.items (canonical_body (view (Packet.Auth packet.now)))) }
{
    if is_empty_auth(packet) {
        return Ok(());
    }
    put_code_and_list(out, packet.code, &packet.properties)
}

/// Appends the body of the packet.
pub fn put_body(out: &mut Vec<u8>, packet: &Packet<'_>) -> Result<(), PutFault>
    requires { valid (view packet.now) ≡ true }
    ensures ok { OnOk result (out.new.items ≡ out.old.items ++ canonical_body (view packet.now)) }
    ensures capacity { vec_capacity out.old ≤ vec_capacity out.new }
    ensures err { OnErr result (LacksRoom (vec_capacity out.old) out.old.items (canonical_body (view packet.now))) }
{
    match packet {
        Packet::Connect(packet) => put_connect(out, packet),
        Packet::Connack(packet) => put_connack(out, packet),
        Packet::Publish(packet) => put_publish(out, packet),
        Packet::Puback(packet)
        | Packet::Pubrec(packet)
        | Packet::Pubrel(packet)
        | Packet::Pubcomp(packet) => put_acknowledgement(out, packet),
        Packet::Subscribe(packet) | Packet::Unsubscribe(packet) => put_request(out, packet),
        Packet::Suback(packet) | Packet::Unsuback(packet) => put_answer(out, packet),
        Packet::Pingreq | Packet::Pingresp => Ok(()),
        Packet::Disconnect(packet) => put_disconnect(out, packet),
        Packet::Auth(packet) => put_auth(out, packet),
    }
}
