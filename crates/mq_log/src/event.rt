//! What a log's bytes complete: an event at a time.

ghost use Rattle.std.specs.Prelude.{◌≡◌};
ghost use Rattle.mq_log.specs.Flows.{item_event};
ghost use Rattle.mq_log.specs.Reception.{event_of, item_of};

use super::kind::Direction;
use mq_packet::{Packet, PacketRule};

/// An item of one direction's stream of packets.
#[derive(Drop)]
pub enum Item<'a> {
    /// A packet, which borrows the bytes that are being read.
    Packet(Packet<'a>),
    /// A packet whose bytes break a rule.
    Bad {
        /// The packet's bytes, from the first one, which names its type (MQTT 5.0, section 2.1.2),
        /// to the last one.
        bytes: &'a [u8],
        /// The first rule that it breaks.
        rule: PacketRule,
        /// The offset in the packet of the field that breaks it.
        at: u32,
    },
    /// The Remaining Length is invalid (MQTT 5.0, section 1.5.5): the rest of this direction can't
    /// be parsed.
    Lost,
}

/// The bytes so far of the packets that a connection has begun and not ended (MQTT 5.0, section
/// 2.1): at most one in each direction. A direction that has whole packets only, or is lost, has
/// none.
#[derive(Clone, Copy)]
pub struct UnfinishedPackets<'a> {
    /// Of the packet that the tested end has begun to send.
    pub sent: &'a [u8],
    /// Of the packet that the tested end has begun to receive.
    pub received: &'a [u8],
}

/// An event of a log.
#[derive(Drop)]
pub enum Event<'a> {
    /// A network connection begins.
    Open,
    /// The network connection ends.
    Close {
        /// What it leaves unfinished, and no later record completes.
        unfinished: UnfinishedPackets<'a>,
    },
    /// The tested end is at rest: what it owes on this connection is done.
    Rest,
    /// The tested end took the QoS 2 message received under this Packet Identifier out of its
    /// delivery handshake, for onward delivery (MQTT 5.0, section 4.3.3).
    Release(u16),
    /// The tested end sent this.
    Sent(Item<'a>),
    /// The tested end received this.
    Recv(Item<'a>),
}

/// The event of an item in this direction.
#[inline(always)]
pub fn item_event(direction: Direction, item: Item<'_>) -> Event<'_>
    ensures { event_of result ≡ item_event direction (item_of item.entry) }
{
    match direction {
        Direction::Sent => Event::Sent(item),
        Direction::Recv => Event::Recv(item),
    }
}
