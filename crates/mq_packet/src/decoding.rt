//! Decoding a packet's bytes.
//!
//! A packet is large, and an inlined function doesn't move it: so `decode` and the readers of the
//! most frequent packets are inlined, and the others are functions of their own.

ghost use Rattle.std.specs.Prelude.{◌≡◌, ◌≤◌, ◌<◌, ℕ, IfOk, IfErr, Some, Result, length};
ghost use Rattle.mq_wire.specs.Left.{Gives};
ghost use Rattle.mq_wire.specs.Spellings.{max_varint};
ghost use Rattle.mq_packet.specs.declared.fault.DecodeFault.{DecodeFault};
ghost use Rattle.mq_packet.specs.declared.packet.Packet.TheVariants as packets;
ghost use Rattle.mq_packet.specs.declared.rule.PacketRule.{PacketRule};
ghost use Rattle.mq_packet.specs.declared.read_fault.ReadFault.TheVariants as stops;
ghost use Rattle.mq_packet.specs.Entries.{Entry};
ghost use Rattle.mq_packet.specs.Decoding.{decoded};
ghost use Rattle.mq_packet.specs.Spelled.{IsSpelled, HasFault, DecodesTo};
ghost use Rattle.mq_packet.specs.Reading.{view, HasReadLen, decode_fault};
ghost use Rattle.mq_packet.specs.Sizes.{remaining_length};

use crate::fault::{BodyFault, DecodeFault};
use crate::first_bytes::flags;
use crate::header::header_len;
use crate::packet::{Packet, Publish};
use crate::read_fault::ReadFault;
use crate::reading::{read_packet, read_publish};
use mq_wire::Cursor;

/// The packet that has this first byte, its type and flags, and this body, which is all that
/// follows the Remaining Length (MQTT 5.0, sections 2.1 and 3.1 to 3.15). A body has at most
/// 268,435,455 bytes (MQTT 5.0, section 2.1.4). Nothing is copied, and no memory is taken.
///
/// The fields are checked in their order, for each first its spelling and then its value, and the
/// first invalid one decides: `Broken` if it breaks a rule on a packet's bytes, with its offset,
/// `OtherVersion` if it is the version of a CONNECT and isn't 5. Last, no bytes may be left over.
///
/// # Examples
///
/// ```
/// let packet = decode(0x40, &[0, 10])?;
/// assert_eq!(rt; packet.kind(), PacketType::Puback);
/// match decode(0x40, &[0, 0]) {
///     Err(DecodeFault::Broken(fault)) => assert_eq!(rt; fault.rule, PacketRule::W09),
///     _ => assert!(rt; false),
/// }
/// ```
#[inline(always)]
pub fn decode<'a>(first: u8, body: &'a [u8]) -> Result<Packet<'a>, DecodeFault>
    requires { length body.now ≤ max_varint }
    // A packet is returned only if these bytes spell it, and a fault only if they have it.
    ensures packet { IfOk result (λ packet. IsSpelled first body.now (view packet)) }
    ensures fault { IfErr result (λ fault. HasFault first body.now fault) }
    // A packet that they spell is returned, and so is a fault that they have.
    ensures only { (outcome : Result Entry DecodeFault) → DecodesTo first body.now outcome → Gives view result outcome }
    // A packet that has several spellings keeps the length of this one.
    ensures read_len { IfOk result (λ packet. HasReadLen (length body.now) packet) }
    // Its size is that of what it was read from: its Remaining Length is the length of this body.
    ensures size { IfOk result (λ packet. remaining_length packet ≡ length body.now) }
    ensures exact { Gives view result (decoded first body.now) }
{
    read_body(first, body)
}

// Does the work of `decode`, whose other clauses follow from this contract. Faults say offsets in
// the packet, so those of the cursor begin after the fixed header.
#[inline(always)]
#[tactic(auto, unfolding(crate::specs::Decoding::decoded, crate::specs::Decoding::body_start))]
fn read_body<'a>(first: u8, body: &'a [u8]) -> Result<Packet<'a>, DecodeFault>
    requires { length body.now ≤ max_varint }
    ensures read_len { IfOk result (λ packet. HasReadLen (length body.now) packet) }
    ensures exact { Gives view result (decoded first body.now) }
{
    let cursor = Cursor::starting_at(body, header_len(body.len() as u32));
    match read_packet(first, cursor, body.len()) {
        Ok(packet) => Ok(packet),
        Err(stop) => Err(fault_of(stop)),
    }
}

/// The PUBLISH that has this first byte and this body (MQTT 5.0, section 3.3): the packet that
/// [`decode`] returns for them, or the fault. It takes no stack for other packets.
#[inline(always)]
pub fn decode_publish<'a>(first: u8, body: &'a [u8]) -> Result<Publish<'a>, DecodeFault>
    requires from { 48 ≤ first }
    requires to { first < 64 }
    requires bound { length body.now ≤ max_varint }
    ensures exact { Gives (λ publish. view (packets.Publish publish)) result (decoded first body.now) }
    ensures size { IfOk result (λ publish. remaining_length (packets.Publish publish) ≡ length body.now) }
{
    read_publish_body(first, body)
}

// Does the work of `decode_publish`, whose clause `size` follows from this contract.
#[inline(always)]
#[tactic(auto, unfolding(crate::specs::Decoding::decoded, crate::specs::Decoding::body_start))]
fn read_publish_body<'a>(first: u8, body: &'a [u8]) -> Result<Publish<'a>, DecodeFault>
    requires from { 48 ≤ first }
    requires to { first < 64 }
    requires bound { length body.now ≤ max_varint }
    ensures exact { Gives (λ publish. view (packets.Publish publish)) result (decoded first body.now) }
{
    let cursor = Cursor::starting_at(body, header_len(body.len() as u32));
    match read_publish(flags(first), cursor) {
        Ok(publish) => Ok(publish),
        Err(stop) => Err(fault_of(stop)),
    }
}

// The fault of a packet whose reading stops for this reason. No offset is past the end of the
// largest packet.
#[inline(always)]
fn fault_of(stop: ReadFault) -> DecodeFault
    requires { (at : ℕ) (rule : PacketRule) → stop ≡ stops.Broken at rule → at ≤ 268435460 }
    ensures { result ≡ decode_fault stop }
{
    match stop {
        ReadFault::Broken { at, rule } => DecodeFault::Broken(BodyFault {
            at: at as u32,
            rule,
        }),
        ReadFault::OtherVersion(version) => DecodeFault::OtherVersion(version),
    }
}
