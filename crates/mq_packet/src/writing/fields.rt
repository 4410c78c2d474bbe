//! Writing the fields of packets.

ghost use Rattle.std.specs.Prelude.{◌≡◌, ◌==◌, ◌&&◌, if◌then◌else◌, [], ◌∷◌, ◌++◌, ◌≤◌, length, true, MatchBool, OnOk, OnErr, vec_capacity};
ghost use Rattle.std.specs.Option.{option_map};
ghost use Rattle.mq_wire.specs.Spellings.{two_bytes_spelling, text_spelling, binary_spelling};
ghost use Rattle.mq_props.specs.Values.{body as properties_spelling};
ghost use Rattle.mq_packet.specs.Reading.{will_view};
ghost use Rattle.mq_packet.specs.Growing.{LacksRoom};
ghost use Rattle.mq_packet.specs.Valid.{is_text, is_binary, if_there, valid_will};
ghost use Rattle.mq_packet.specs.Canonical.{list_spelling, spelling_if, will_spelling, reason_spelling, auth_body};

use super::puts::{put_byte, put_bytes, put_data, put_length, put_number, put_string};
use crate::packet::{ReasonPacket, Will};
use mq_props::Props;
use mq_wire::PutFault;

/// Appends a property list: its length in bytes, and its properties (MQTT 5.0, section 2.2.2).
#[tactic(auto, using(crate::proofs::GrowingLaws::lacks_first, crate::proofs::GrowingLaws::lacks_after, crate::proofs::GrowingLaws::lacks_byte, crate::proofs::GrowingLaws::lacks_after_byte))]
pub fn put_list(out: &mut Vec<u8>, list: &Props<'_>) -> Result<(), PutFault>
    ensures ok { OnOk result (out.new.items ≡ out.old.items ++ list_spelling list.now.items) }
    ensures capacity { vec_capacity out.old ≤ vec_capacity out.new }
    ensures err { OnErr result (LacksRoom (vec_capacity out.old) out.old.items (list_spelling list.now.items)) }
{
    let bytes = list.as_bytes();
    put_length(out, bytes.len() as u32)?;
    put_bytes(out, bytes)
}

// Appends the Reason Code, unless it is 0x00.
fn put_code(out: &mut Vec<u8>, code: u8) -> Result<(), PutFault>
    ensures ok { OnOk result (out.new.items ≡ out.old.items ++ (if code == 0 then [] else code ∷ [])) }
    ensures capacity { vec_capacity out.old ≤ vec_capacity out.new }
    ensures err { OnErr result (LacksRoom (vec_capacity out.old) out.old.items (if code == 0 then [] else code ∷ [])) }
{
    if code == 0 {
        return Ok(());
    }
    put_byte(out, code)
}

/// Appends the Reason Code and the property list.
#[tactic(auto, using(crate::proofs::GrowingLaws::lacks_first, crate::proofs::GrowingLaws::lacks_after, crate::proofs::GrowingLaws::lacks_byte, crate::proofs::GrowingLaws::lacks_after_byte))]
pub fn put_code_and_list(out: &mut Vec<u8>, code: u8, list: &Props<'_>) -> Result<(), PutFault>
    ensures ok { OnOk result (out.new.items ≡ out.old.items ++ (code ∷ list_spelling list.now.items)) }
    ensures capacity { vec_capacity out.old ≤ vec_capacity out.new }
    ensures err { OnErr result (LacksRoom (vec_capacity out.old) out.old.items (code ∷ list_spelling list.now.items)) }
{
    put_byte(out, code)?;
    put_list(out, list)
}

/// Appends a Reason Code and a property list, each only if it is needed (MQTT 5.0, sections 3.4.2
/// and 3.14.2).
#[tactic(auto, using(crate::proofs::ReasonLaws::reason_by))]
pub fn put_reason(out: &mut Vec<u8>, code: u8, list: &Props<'_>) -> Result<(), PutFault>
    ensures ok { OnOk result (out.new.items ≡ out.old.items ++ reason_spelling code list.now.items) }
    ensures capacity { vec_capacity out.old ≤ vec_capacity out.new }
    ensures err { OnErr result (LacksRoom (vec_capacity out.old) out.old.items (reason_spelling code list.now.items)) }
{
    if list.as_bytes().is_empty() {
        put_code(out, code)
    } else {
        put_code_and_list(out, code, list)
    }
}

/// Appends the Packet Identifier, if there is one.
pub fn put_identifier_if_there(out: &mut Vec<u8>, identifier: Option<u16>) -> Result<(), PutFault>
    ensures ok { OnOk result (out.new.items ≡ out.old.items ++ spelling_if two_bytes_spelling identifier) }
    ensures capacity { vec_capacity out.old ≤ vec_capacity out.new }
    ensures err { OnErr result (LacksRoom (vec_capacity out.old) out.old.items (spelling_if two_bytes_spelling identifier)) }
{
    match identifier {
        Some(identifier) => put_number(out, identifier),
        None => Ok(()),
    }
}

/// Appends the text, if there is one.
pub fn put_text_if_there(out: &mut Vec<u8>, text: Option<&str>) -> Result<(), PutFault>
    requires { if_there is_text (option_map (λ t. t.now) text) ≡ true }
    ensures ok { OnOk result (out.new.items ≡ out.old.items ++ spelling_if text_spelling (option_map (λ t. t.now) text.entry)) }
    ensures capacity { vec_capacity out.old ≤ vec_capacity out.new }
    ensures err { OnErr result (LacksRoom (vec_capacity out.old) out.old.items (spelling_if text_spelling (option_map (λ t. t.now) text.entry))) }
{
    match text {
        Some(text) => put_string(out, text),
        None => Ok(()),
    }
}

/// Appends the binary data, if there is any.
pub fn put_binary_if_there(out: &mut Vec<u8>, bytes: Option<&[u8]>) -> Result<(), PutFault>
    requires { if_there is_binary (option_map (λ b. b.now) bytes) ≡ true }
    ensures ok { OnOk result (out.new.items ≡ out.old.items ++ spelling_if binary_spelling (option_map (λ b. b.now) bytes.entry)) }
    ensures capacity { vec_capacity out.old ≤ vec_capacity out.new }
    ensures err { OnErr result (LacksRoom (vec_capacity out.old) out.old.items (spelling_if binary_spelling (option_map (λ b. b.now) bytes.entry))) }
{
    match bytes {
        Some(bytes) => put_data(out, bytes),
        None => Ok(()),
    }
}

// Appends the Will as the payload of a CONNECT has it; its flags are in the variable header.
#[tactic(auto, using(crate::proofs::GrowingLaws::lacks_first, crate::proofs::GrowingLaws::lacks_after, crate::proofs::GrowingLaws::lacks_byte, crate::proofs::GrowingLaws::lacks_after_byte))]
fn put_will(out: &mut Vec<u8>, will: &Will<'_>) -> Result<(), PutFault>
    requires { valid_will (will_view will.now) ≡ true }
    ensures ok { OnOk result (out.new.items ≡ out.old.items ++ will_spelling (will_view will.now)) }
    ensures capacity { vec_capacity out.old ≤ vec_capacity out.new }
    ensures err { OnErr result (LacksRoom (vec_capacity out.old) out.old.items (will_spelling (will_view will.now))) }
{
    put_list(out, &will.properties)?;
    put_string(out, will.topic)?;
    put_data(out, will.payload)
}

/// Appends the Will, if there is one (MQTT 5.0, sections 3.1.3.2 to 3.1.3.4).
pub fn put_will_if_there(out: &mut Vec<u8>, will: &Option<Will<'_>>) -> Result<(), PutFault>
    requires { if_there valid_will (option_map will_view will.now) ≡ true }
    ensures ok { OnOk result (out.new.items ≡ out.old.items ++ spelling_if will_spelling (option_map will_view will.now)) }
    ensures capacity { vec_capacity out.old ≤ vec_capacity out.new }
    ensures err { OnErr result (LacksRoom (vec_capacity out.old) out.old.items (spelling_if will_spelling (option_map will_view will.now))) }
{
    match will {
        Some(will) => put_will(out, will),
        None => Ok(()),
    }
}

// Whether the Reason Code is 0x00, and there are no properties. `is_empty_auth` proves what the
// body of an AUTH then is.
fn is_bare(packet: &ReasonPacket<'_>) -> bool
    ensures { result ≡ ((packet.now.code == 0) && (length (properties_spelling packet.now.properties.items) == 0)) }
{
    packet.code == 0 && packet.properties.as_bytes().is_empty()
}

/// Whether an AUTH is empty: its Reason Code is 0x00, and it has no properties (MQTT 5.0, section
/// 3.15.2.1).
#[tactic(auto, using(crate::proofs::ReasonLaws::auth_parts))]
pub fn is_empty_auth(packet: &ReasonPacket<'_>) -> bool
    ensures { MatchBool result (auth_body packet.now.code packet.now.properties.items ≡ []) (auth_body packet.now.code packet.now.properties.items ≡ packet.now.code ∷ list_spelling packet.now.properties.items) }
{
    is_bare(packet)
}
