//! Writing packets.

mod bodies;
mod fault;
mod fields;
mod first;
mod laws;
mod lengths;
mod puts;
mod size;

ghost use Rattle.std.specs.Prelude.{◌≡◌, ◌+◌, ◌++◌, ◌<◌, ◌≤◌, ◌↔◌, true, length, OnOk, OnErr, Err, vec_len, vec_capacity};
ghost use Rattle.mq_wire.specs.Spellings.{max_varint};
ghost use Rattle.mq_packet.specs.Growing.{LacksRoom};
ghost use Rattle.mq_packet.specs.Reading.{view};
ghost use Rattle.mq_packet.specs.Spelled.{IsSpelled};
ghost use Rattle.mq_packet.specs.Canonical.{first_byte_of, canonical_body, canonical};
ghost use Rattle.mq_packet.specs.Valid.{valid};

use crate::facts::packet_facts;
use crate::header::header_len;
use crate::packet::Packet;
use bodies::put_body;
pub use fault::EncodeFault;
use first::first_byte;
pub use laws::{what_is_valid_is_spelled, what_is_written_is_cut, what_is_written_is_decoded};
use lengths::body_len;
use mq_wire::PutFault;
use puts::{put_byte, put_length};

// Appends the packet, whose body has this length.
#[tactic(auto, using(crate::proofs::GrowingLaws::lacks_first, crate::proofs::GrowingLaws::lacks_after, crate::proofs::GrowingLaws::lacks_byte, crate::proofs::GrowingLaws::lacks_after_byte), unfolding(crate::specs::Canonical::canonical))]
fn put_packet(out: &mut Vec<u8>, packet: &Packet<'_>, len: u32) -> Result<(), PutFault>
    requires len { len ≡ length (canonical_body (view packet.now)) }
    requires bound { len ≤ max_varint }
    requires valid { valid (view packet.now) ≡ true }
    ensures ok { OnOk result (out.new.items ≡ out.old.items ++ canonical (view packet.now)) }
    ensures capacity { vec_capacity out.old ≤ vec_capacity out.new }
    ensures err { OnErr result (LacksRoom (vec_capacity out.old) out.old.items (canonical (view packet.now))) }
{
    put_byte(out, first_byte(packet))?;
    put_length(out, len)?;
    put_body(out, packet)
}

// How many bytes the packet has, if its body has this length.
#[tactic(auto, using(crate::proofs::GrowingLaws::written_length))]
fn written_len(packet: &Packet<'_>, len: u32) -> usize
    requires len { len ≡ length (canonical_body (view packet.now)) }
    requires bound { len ≤ max_varint }
    ensures { result ≡ length (canonical (view packet.now)) }
{
    header_len(len) + len as usize
}

// Appends the packet, for which there is room, and whose body has this length.
#[tactic(auto, using(crate::proofs::GrowingLaws::room_enough))]
fn put_within(out: &mut Vec<u8>, packet: &Packet<'_>, len: u32)
    requires len { len ≡ length (canonical_body (view packet.now)) }
    requires bound { len ≤ max_varint }
    requires valid { valid (view packet.now) ≡ true }
    requires room { vec_len out.old + length (canonical (view packet.now)) ≤ vec_capacity out.old }
    ensures { out.new.items ≡ out.old.items ++ canonical (view packet.now) }
{
    put_packet(out, packet, len).unwrap();
}

// A valid packet is spelled as it is written.
#[tactic(auto, using(crate::proofs::CanonicalLaws::canonical_spelled))]
fn spelling_facts(packet: &Packet<'_>)
    requires { valid (view packet.now) ≡ true }
    ensures { IsSpelled (first_byte_of (view packet.now)) (canonical_body (view packet.now)) (view packet.now) }
{
    packet_facts(packet);
}

/// Appends the packet's bytes (MQTT 5.0, sections 2.1 and 3.1 to 3.15). The packet must be valid
/// (see `is_valid`). If it has several spellings, the shortest is written: a PUBACK, PUBREC,
/// PUBREL, PUBCOMP, DISCONNECT or AUTH of Reason Code 0x00 without properties ends before its code,
/// and without properties each of these except an AUTH ends after its code.
///
/// # Errors
///
/// `TooLong` exactly if the Remaining Length would be over 268,435,455; else `Memory` only if the
/// vector has no room for the packet and couldn't grow. The vector is then unchanged.
///
/// # Examples
///
/// ```
/// let packet = decode(0xE0, &[0x04, 0x00])?;
/// let mut out = Vec::new(rt.alloc());
/// if is_valid(&packet) {
///     encode(&packet, &mut out)?;
/// }
/// assert_eq!(rt; out.as_slice(), [0xE0, 0x01, 0x04].as_slice());
/// ```
pub fn encode(packet: &Packet<'_>, out: &mut Vec<u8>) -> Result<(), EncodeFault>
    requires valid { valid (view packet.now) ≡ true }
    ensures ok { OnOk result (out.new.items ≡ out.old.items ++ canonical (view packet.now)) }
    // What is written spells the packet.
    ensures spelled { IsSpelled (first_byte_of (view packet.now)) (canonical_body (view packet.now)) (view packet.now) }
    ensures too_long { (result ≡ Err EncodeFault.TooLong) ↔ (max_varint < length (canonical_body (view packet.now))) }
    ensures memory { result ≡ Err EncodeFault.Memory → vec_capacity out.old < vec_len out.old + length (canonical (view packet.now)) }
    ensures err { OnErr result (out.new.items ≡ out.old.items) }
{
    spelling_facts(packet);
    let Some(len) = body_len(packet) else {
        return Err(EncodeFault::TooLong);
    };
    if out.reserve(written_len(packet, len)).is_err() {
        return Err(EncodeFault::Memory);
    }
    put_within(out, packet, len);
    Ok(())
}
