//! Readers of packets, each proved against its format (MQTT 5.0, sections 3.1 to 3.15).

mod acknowledgement;
mod connack;
mod connect;
mod fields;
mod lists;
mod publish;
mod reason_packet;
mod request;

ghost use Rattle.std.specs.Prelude.{◌≡◌, ◌≢◌, ◌<◌, ◌≤◌, ◌⊎◌, IfOk};
ghost use Rattle.mq_wire.specs.Spellings.{max_varint};
ghost use Rattle.mq_packet.specs.Formats.{format_of};
ghost use Rattle.mq_packet.specs.Decoding.{read};
ghost use Rattle.mq_packet.specs.Reading.{view, HasReadLen, Reads};

use crate::first_bytes::{
    AUTH, CONNACK, CONNECT, DISCONNECT, PINGREQ, PINGRESP, PUBACK, PUBCOMP, PUBLISH, PUBREC,
    PUBREL, SUBACK, SUBSCRIBE, UNSUBACK, UNSUBSCRIBE, flags,
};
use crate::packet::{AcknowledgementKind, Packet, ReasonPacketKind, RequestKind};
use crate::read_fault::ReadFault;
use crate::rule::PacketRule;
use acknowledgement::read_acknowledgement;
use connack::read_connack;
use connect::read_connect;
pub use fields::SUCCESS;
use fields::whole;
pub use lists::check_filters;
use mq_wire::Cursor;
pub use publish::{brief_topic, identified_topic, names_topic, read_publish};
use reason_packet::read_reason_packet;
pub use request::{read_answer, read_request};

/// The packet with this first byte, whose body, of this size, is left in the cursor; or why reading
/// it stops. Each type has one first byte, except PUBLISH, which has flags of its own (MQTT 5.0,
/// sections 2.1.2 and 2.1.3). A packet that has several spellings keeps the size (MQTT 5.0,
/// sections 3.4 to 3.7, 3.14 and 3.15).
#[inline(always)]
pub fn read_packet<'a>(first: u8, cursor: Cursor<'a>, size: usize) -> Result<Packet<'a>, ReadFault>
    requires bound { size ≤ max_varint }
    ensures read { Reads view result (read (format_of first) cursor.entry) }
    ensures read_len { IfOk result (λ packet. HasReadLen size packet) }
{
    match first {
        PUBLISH..PUBACK => read_publish(flags(first), cursor).map(Packet::Publish),
        PUBACK => read_acknowledgement(cursor, AcknowledgementKind::Puback, size).map(
            Packet::Puback,
        ),
        PUBREC => read_acknowledgement(cursor, AcknowledgementKind::Pubrec, size).map(
            Packet::Pubrec,
        ),
        PUBREL => read_acknowledgement(cursor, AcknowledgementKind::Pubrel, size).map(
            Packet::Pubrel,
        ),
        PUBCOMP => read_acknowledgement(cursor, AcknowledgementKind::Pubcomp, size).map(
            Packet::Pubcomp,
        ),
        // Unwrapping and wrapping the result gives this packet a place of its own, so that the
        // others need none here.
        _ => Ok(read_other(first, cursor, size)?),
    }
}

// The same for all packets except PUBLISH and its acknowledgements. It is a function of its own, so
// that reading those takes no stack for its packets.
#[inline(never)]
fn read_other<'a>(first: u8, cursor: Cursor<'a>, size: usize) -> Result<Packet<'a>, ReadFault>
    requires bound { size ≤ max_varint }
    requires publish { (first < 48) ⊎ (64 ≤ first) }
    requires acknowledgement { (first ≢ 64) × (first ≢ 80) × (first ≢ 98) × (first ≢ 112) }
    ensures read { Reads view result (read (format_of first) cursor.entry) }
    ensures read_len { IfOk result (λ packet. HasReadLen size packet) }
{
    match first {
        CONNECT => read_connect(cursor).map(Packet::Connect),
        CONNACK => read_connack(cursor).map(Packet::Connack),
        SUBSCRIBE => read_request(cursor, RequestKind::Subscribe).map(Packet::Subscribe),
        SUBACK => read_answer(cursor, RequestKind::Subscribe).map(Packet::Suback),
        UNSUBSCRIBE => read_request(cursor, RequestKind::Unsubscribe).map(Packet::Unsubscribe),
        UNSUBACK => read_answer(cursor, RequestKind::Unsubscribe).map(Packet::Unsuback),
        PINGREQ => whole(cursor, Packet::Pingreq),
        PINGRESP => whole(cursor, Packet::Pingresp),
        DISCONNECT => read_reason_packet(cursor, ReasonPacketKind::Disconnect, size).map(
            Packet::Disconnect,
        ),
        AUTH => read_reason_packet(cursor, ReasonPacketKind::Auth, size).map(Packet::Auth),
        0x00..CONNECT => Err(broken_first_byte(PacketRule::W02)),
        _ => Err(broken_first_byte(PacketRule::W01)),
    }
}

// The first byte breaks the rule.
fn broken_first_byte(rule: PacketRule) -> ReadFault
    ensures { result ≡ ReadFault.Broken 0 rule }
{
    ReadFault::Broken { at: 0, rule }
}
