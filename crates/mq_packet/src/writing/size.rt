//! The type and the size of a packet.

ghost use Rattle.std.specs.Prelude.{◌≡◌};
ghost use Rattle.mq_packet.specs.Reading.{view, read_len_of};
ghost use Rattle.mq_packet.specs.Canonical.{type_of};
ghost use Rattle.mq_packet.specs.Sizes.{within, remaining_length, size_with};

use super::lengths::body_len;
use crate::header::header_len;
use crate::packet::{Packet, PacketType};
use mq_wire::MAX_VARINT;

// The length of the body as it was read, if the packet keeps it.
#[inline(always)]
fn read_len(packet: &Packet<'_>) -> Option<u32>
    ensures { result ≡ read_len_of packet.now }
{
    match packet {
        Packet::Puback(packet)
        | Packet::Pubrec(packet)
        | Packet::Pubrel(packet)
        | Packet::Pubcomp(packet) => packet.read_len,
        Packet::Disconnect(packet) | Packet::Auth(packet) => packet.read_len,
        Packet::Connect(_) | Packet::Connack(_) | Packet::Publish(_) => None,
        Packet::Subscribe(_) | Packet::Suback(_) => None,
        Packet::Unsubscribe(_) | Packet::Unsuback(_) => None,
        Packet::Pingreq | Packet::Pingresp => None,
    }
}

// The length of the body, if a Remaining Length can say it.
#[inline(always)]
fn remaining_len(packet: &Packet<'_>) -> Option<u32>
    ensures { result ≡ within (remaining_length packet.now) }
{
    match read_len(packet) {
        Some(len) if len <= MAX_VARINT => Some(len),
        Some(_) => None,
        None => body_len(packet),
    }
}

impl<'a> Packet<'a> {
    /// The packet's type (MQTT 5.0, section 2.1.2).
    pub fn kind(&self) -> PacketType
        ensures { result ≡ type_of (view self.now) }
    {
        match self {
            Packet::Connect(_) => PacketType::Connect,
            Packet::Connack(_) => PacketType::Connack,
            Packet::Publish(_) => PacketType::Publish,
            Packet::Puback(_) => PacketType::Puback,
            Packet::Pubrec(_) => PacketType::Pubrec,
            Packet::Pubrel(_) => PacketType::Pubrel,
            Packet::Pubcomp(_) => PacketType::Pubcomp,
            Packet::Subscribe(_) => PacketType::Subscribe,
            Packet::Suback(_) => PacketType::Suback,
            Packet::Unsubscribe(_) => PacketType::Unsubscribe,
            Packet::Unsuback(_) => PacketType::Unsuback,
            Packet::Pingreq => PacketType::Pingreq,
            Packet::Pingresp => PacketType::Pingresp,
            Packet::Disconnect(_) => PacketType::Disconnect,
            Packet::Auth(_) => PacketType::Auth,
        }
    }

    /// How many bytes the whole packet has (MQTT 5.0, section 2.1): as it was read, if `read_len`
    /// says so, else as `encode` writes it. `None` if its Remaining Length would be over
    /// 268,435,455.
    #[inline(always)]
    pub fn size(&self) -> Option<u32>
        ensures { result ≡ size_with (remaining_length self.now) }
    {
        let len = remaining_len(self)?;
        Some(header_len(len) as u32 + len)
    }
}
