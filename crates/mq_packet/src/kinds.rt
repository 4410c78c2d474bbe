//! What distinguishes packets that have the same fields: the places of their property lists, the
//! Reason Codes that they may have, and whether their filters have options.

ghost use Rattle.std.specs.Prelude.{◌≡◌};
ghost use Rattle.mq_packet.specs.Entries.{acknowledgement_place, acknowledgement_codes, request_place, has_options, answer_place, answer_codes, reason_packet_place, reason_packet_codes};

use crate::codes::{
    AUTH_CODES, DISCONNECT_CODES, PUBACK_CODES, PUBREL_CODES, SUBACK_CODES, UNSUBACK_CODES,
};
use crate::packet::{AcknowledgementKind, ReasonPacketKind, RequestKind};
use mq_props::Place;

impl AcknowledgementKind {
    /// The place of the property list.
    #[inline(always)]
    pub fn place(self) -> Place
        ensures { result ≡ acknowledgement_place self }
    {
        match self {
            AcknowledgementKind::Puback => Place::Puback,
            AcknowledgementKind::Pubrec => Place::Pubrec,
            AcknowledgementKind::Pubrel => Place::Pubrel,
            AcknowledgementKind::Pubcomp => Place::Pubcomp,
        }
    }

    /// The Reason Codes (MQTT 5.0, sections 3.4.2.1, 3.5.2.1, 3.6.2.1 and 3.7.2.1).
    #[inline(always)]
    pub fn codes(self) -> &'static [u8]
        ensures { result.now ≡ acknowledgement_codes self }
    {
        match self {
            AcknowledgementKind::Puback | AcknowledgementKind::Pubrec => &PUBACK_CODES,
            AcknowledgementKind::Pubrel | AcknowledgementKind::Pubcomp => &PUBREL_CODES,
        }
    }
}

impl RequestKind {
    /// The place of the property list.
    pub fn place(self) -> Place
        ensures { result ≡ request_place self }
    {
        match self {
            RequestKind::Subscribe => Place::Subscribe,
            RequestKind::Unsubscribe => Place::Unsubscribe,
        }
    }

    /// Whether each filter has Subscription Options, or none (MQTT 5.0, sections 3.8.3 and 3.10.3).
    pub fn has_options(self) -> bool
        ensures { result ≡ has_options self }
    {
        match self {
            RequestKind::Subscribe => true,
            RequestKind::Unsubscribe => false,
        }
    }

    /// The place of its answer's property list.
    pub fn answer_place(self) -> Place
        ensures { result ≡ answer_place self }
    {
        match self {
            RequestKind::Subscribe => Place::Suback,
            RequestKind::Unsubscribe => Place::Unsuback,
        }
    }

    /// The Reason Codes of its answer (MQTT 5.0, sections 3.9.3 and 3.11.3).
    pub fn answer_codes(self) -> &'static [u8]
        ensures { result.now ≡ answer_codes self }
    {
        match self {
            RequestKind::Subscribe => &SUBACK_CODES,
            RequestKind::Unsubscribe => &UNSUBACK_CODES,
        }
    }
}

impl ReasonPacketKind {
    /// The place of the property list.
    pub fn place(self) -> Place
        ensures { result ≡ reason_packet_place self }
    {
        match self {
            ReasonPacketKind::Disconnect => Place::Disconnect,
            ReasonPacketKind::Auth => Place::Auth,
        }
    }

    /// The Reason Codes (MQTT 5.0, sections 3.14.2.1 and 3.15.2.1).
    pub fn codes(self) -> &'static [u8]
        ensures { result.now ≡ reason_packet_codes self }
    {
        match self {
            ReasonPacketKind::Disconnect => &DISCONNECT_CODES,
            ReasonPacketKind::Auth => &AUTH_CODES,
        }
    }
}
