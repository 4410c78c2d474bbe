//! What a line says of a packet.
ghost use Rattle.std.specs.Prelude.{◌≡◌};
ghost use Rattle.mq_packet.specs.Reading.{view};
ghost use Rattle.mq_display.specs.Summaries.{packet_summary};

use mq_packet::{Packet, Qos};

/// What a line says of a packet, besides its size.
#[derive(Clone, Copy)]
pub enum PacketSummary {
    /// CONNECT.
    Connect,
    /// CONNACK.
    Connack {
        /// Session Present: whether the server resumed a session that it had.
        session_present: bool,
        /// The Reason Code: 0x00 accepts the connection.
        code: u8,
    },
    /// PUBLISH.
    Publish {
        /// The Packet Identifier, if the QoS is above 0.
        identifier: Option<u16>,
        /// The Quality of Service.
        qos: Qos,
        /// The DUP flag.
        duplicate: bool,
    },
    /// PUBACK.
    Puback {
        /// The Packet Identifier of the PUBLISH that it answers.
        identifier: u16,
        /// The Reason Code.
        code: u8,
    },
    /// PUBREC.
    Pubrec {
        /// The Packet Identifier of the PUBLISH that it answers.
        identifier: u16,
        /// The Reason Code: 0x80 or more refuses the PUBLISH.
        code: u8,
    },
    /// PUBREL.
    Pubrel {
        /// The Packet Identifier of the PUBLISH that it is about.
        identifier: u16,
        /// The Reason Code.
        code: u8,
    },
    /// PUBCOMP.
    Pubcomp {
        /// The Packet Identifier of the PUBLISH that it is about.
        identifier: u16,
        /// The Reason Code.
        code: u8,
    },
    /// SUBSCRIBE, with its Packet Identifier.
    Subscribe(u16),
    /// SUBACK, with the Packet Identifier of the SUBSCRIBE that it answers.
    Suback(u16),
    /// UNSUBSCRIBE, with its Packet Identifier.
    Unsubscribe(u16),
    /// UNSUBACK, with the Packet Identifier of the UNSUBSCRIBE that it answers.
    Unsuback(u16),
    /// PINGREQ.
    Pingreq,
    /// PINGRESP.
    Pingresp,
    /// DISCONNECT, with its Reason Code.
    Disconnect(u8),
    /// AUTH, with its Reason Code.
    Auth(u8),
}

impl PacketSummary {
    /// What a line says of this packet.
    #[inline(always)]
    pub fn of(packet: &Packet<'_>) -> PacketSummary
        ensures { result ≡ packet_summary (view packet.now) }
    {
        match packet {
            Packet::Connect(_) => PacketSummary::Connect,
            Packet::Connack(connack) => PacketSummary::Connack {
                session_present: connack.session_present,
                code: connack.code,
            },
            Packet::Publish(publish) => PacketSummary::Publish {
                identifier: publish.identifier,
                qos: publish.qos,
                duplicate: publish.duplicate,
            },
            Packet::Puback(puback) => PacketSummary::Puback {
                identifier: puback.identifier,
                code: puback.code,
            },
            Packet::Pubrec(pubrec) => PacketSummary::Pubrec {
                identifier: pubrec.identifier,
                code: pubrec.code,
            },
            Packet::Pubrel(pubrel) => PacketSummary::Pubrel {
                identifier: pubrel.identifier,
                code: pubrel.code,
            },
            Packet::Pubcomp(pubcomp) => PacketSummary::Pubcomp {
                identifier: pubcomp.identifier,
                code: pubcomp.code,
            },
            Packet::Subscribe(subscribe) => PacketSummary::Subscribe(subscribe.identifier),
            Packet::Suback(suback) => PacketSummary::Suback(suback.identifier),
            Packet::Unsubscribe(unsubscribe) => PacketSummary::Unsubscribe(unsubscribe.identifier),
            Packet::Unsuback(unsuback) => PacketSummary::Unsuback(unsuback.identifier),
            Packet::Pingreq => PacketSummary::Pingreq,
            Packet::Pingresp => PacketSummary::Pingresp,
            Packet::Disconnect(disconnect) => PacketSummary::Disconnect(disconnect.code),
            Packet::Auth(auth) => PacketSummary::Auth(auth.code),
        }
    }
}
