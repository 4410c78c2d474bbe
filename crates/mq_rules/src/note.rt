//! What the statements look at in an event.
ghost use Rattle.std.specs.Prelude.{◌≡◌, option_map};
ghost use Rattle.mq_packet.specs.Canonical.{type_number};
ghost use Rattle.mq_rules.specs.Words.{is_some_and};
ghost use Rattle.mq_rules.specs.Notes as notes;
ghost use Rattle.mq_rules.specs.declared.role.Role.TheVariants as roles;
ghost use Rattle.mq_rules.specs.Identifiers.{taken_by};

use crate::fate::Fate;
use crate::method::Method;
use crate::packet_note::{
    ConnackNote, ConnectNote, DisconnectNote, PacketFields, PacketNote, PublishNote, WishesNote,
};
use crate::role::Role;
use mq_log::Place3;
use mq_packet::{BodyFault, PacketRule, PacketType};

/// What the statements look at of an item that was sent or received.
#[derive(Debug)]
pub enum ItemNote {
    /// A packet.
    Packet(PacketNote),
    /// A packet whose bytes break a rule.
    Bad {
        /// The packet's first byte.
        first: u8,
        /// The first rule that it breaks.
        rule: PacketRule,
        /// The offset in the packet of the field that breaks it.
        at: u32,
        /// Whether it has more than 65,536 bytes.
        is_large: bool,
    },
    /// The direction can't be cut into packets from here on.
    Lost,
}

/// What the statements look at in an event.
#[derive(Debug, Drop)]
pub enum Note {
    /// A connection begins.
    Open,
    /// The connection ends.
    Close {
        /// Whether the tested end had begun to send a PUBLISH of QoS 1 or 2, and hadn't ended it.
        cuts_publish: bool,
        /// Whether it had begun to send any packet, and hadn't ended it.
        cuts_packet: bool,
    },
    /// The tested end is at rest.
    Rest,
    /// The tested end released the message received under this Packet Identifier.
    Release(u16),
    /// The tested end sent this.
    Sent(ItemNote),
    /// The tested end received this.
    Recv(ItemNote),
}

/// An event's note with its place.
#[derive(Debug, Drop)]
pub struct Seen {
    /// The event's position and record.
    pub place: Place3,
    /// What the statements look at in it.
    pub note: Note,
}

// The number of a packet's type (MQTT 5.0, section 2.1.2).
#[inline]
pub(crate) fn type_number(packet_type: PacketType) -> u8
    ensures { result ≡ type_number packet_type }
{
    match packet_type {
        PacketType::Connect => 1,
        PacketType::Connack => 2,
        PacketType::Publish => 3,
        PacketType::Puback => 4,
        PacketType::Pubrec => 5,
        PacketType::Pubrel => 6,
        PacketType::Pubcomp => 7,
        PacketType::Subscribe => 8,
        PacketType::Suback => 9,
        PacketType::Unsubscribe => 10,
        PacketType::Unsuback => 11,
        PacketType::Pingreq => 12,
        PacketType::Pingresp => 13,
        PacketType::Disconnect => 14,
        PacketType::Auth => 15,
    }
}

// As a derived one, but inlined: few notes have memory of their own, and one that is handed to a
// call is moved first.
impl Drop for ItemNote {
    #[inline(always)]
    fn drop(self) {
        match self {
            ItemNote::Packet(_packet) => {}
            ItemNote::Bad {
                first: _,
                rule: _,
                at: _,
                is_large: _,
            } => {}
            ItemNote::Lost => {}
        }
    }
}

impl ItemNote {
    /// The packet, if it is one.
    #[inline]
    pub fn packet(&self) -> Option<&PacketNote>
        ensures { option_map (λ packet. packet.now) result ≡ notes.packet_in self.now }
    {
        match self {
            ItemNote::Packet(packet) => Some(packet),
            _ => None,
        }
    }

    /// Whether it is a packet or bytes that break a rule: it then has a type.
    #[inline]
    pub fn is_typed(&self) -> bool
        ensures { result ≡ notes.is_typed self.now }
    {
        !matches!(self, ItemNote::Lost)
    }

    /// Whether it is of this type. Bytes that break a rule have the type that their first byte
    /// names (MQTT 5.0, section 2.1.2).
    #[inline]
    pub fn is_of_type(&self, packet_type: PacketType) -> bool
        ensures { result ≡ notes.is_of_type packet_type self.now }
    {
        match self {
            ItemNote::Packet(packet) => type_number(packet_type)
                == type_number(packet.fields.kind()),
            ItemNote::Bad { first, .. } => type_number(packet_type) == *first / 16,
            ItemNote::Lost => false,
        }
    }

    /// Whether these are bytes of a SUBSCRIBE or an UNSUBSCRIBE that break a rule, or bytes that
    /// can't be cut into packets, among which such packets may be.
    pub fn is_unclear(&self) -> bool
        ensures { result ≡ notes.is_unclear self.now }
    {
        match self {
            ItemNote::Packet(_) => false,
            ItemNote::Bad { .. } => {
                self.is_of_type(PacketType::Subscribe) || self.is_of_type(PacketType::Unsubscribe)
            }
            ItemNote::Lost => true,
        }
    }

    /// The rule that these bytes break, and where in the packet. If the direction is lost, its
    /// Remaining Length breaks W03, at the packet's second byte.
    #[inline]
    pub fn body_fault(&self) -> Option<BodyFault>
        ensures { result ≡ notes.broken_in self.now }
    {
        match self {
            ItemNote::Packet(_) => None,
            ItemNote::Bad { rule, at, .. } => Some(BodyFault {
                at: *at,
                rule: *rule,
            }),
            ItemNote::Lost => Some(BodyFault {
                at: 1,
                rule: PacketRule::W03,
            }),
        }
    }
}

impl Note {
    /// Whether a network connection begins.
    #[inline]
    pub fn is_open(&self) -> bool
        ensures { result ≡ notes.is_open self.now }
    {
        matches!(self, Note::Open)
    }

    /// Whether the network connection ends.
    #[inline]
    pub fn is_close(&self) -> bool
        ensures { result ≡ notes.is_close self.now }
    {
        matches!(self, Note::Close { .. })
    }

    /// Whether a network connection begins or ends.
    #[inline]
    pub fn is_boundary(&self) -> bool
        ensures { result ≡ notes.is_boundary self.now }
    {
        matches!(self, Note::Open | Note::Close { .. })
    }

    /// Whether the tested end is at rest.
    #[inline]
    pub fn is_rest(&self) -> bool
        ensures { result ≡ notes.is_rest self.now }
    {
        matches!(self, Note::Rest)
    }

    /// Whether the tested end released a QoS 2 message for onward delivery (MQTT 5.0, section
    /// 4.3.3).
    #[inline]
    pub fn is_release(&self) -> bool
        ensures { result ≡ notes.is_release self.now }
    {
        matches!(self, Note::Release(_))
    }

    /// The Packet Identifier of the QoS 2 message that the tested end released (MQTT 5.0, section
    /// 4.3.3).
    #[inline]
    pub fn released_identifier(&self) -> Option<u16>
        ensures { result ≡ notes.released_id self.now }
    {
        match self {
            Note::Release(identifier) => Some(*identifier),
            _ => None,
        }
    }

    /// What the tested end sent.
    #[inline]
    pub fn sent_item(&self) -> Option<&ItemNote>
        ensures { option_map (λ item. item.now) result ≡ notes.sent_item self.now }
    {
        match self {
            Note::Sent(item) => Some(item),
            _ => None,
        }
    }

    /// The packet that the tested end sent.
    #[inline]
    pub fn sent_packet(&self) -> Option<&PacketNote>
        ensures { option_map (λ packet. packet.now) result ≡ notes.sent_packet self.now }
    {
        match self {
            Note::Sent(ItemNote::Packet(packet)) => Some(packet),
            _ => None,
        }
    }

    /// The fields of the packet that the tested end sent.
    #[inline]
    pub fn sent_fields(&self) -> Option<&PacketFields>
        ensures { option_map (λ fields. fields.now) result ≡ notes.sent_fields self.now }
    {
        match self {
            Note::Sent(ItemNote::Packet(packet)) => Some(&packet.fields),
            _ => None,
        }
    }

    /// What the tested end received.
    #[inline]
    pub fn received_item(&self) -> Option<&ItemNote>
        ensures { option_map (λ item. item.now) result ≡ notes.received_item self.now }
    {
        match self {
            Note::Recv(item) => Some(item),
            _ => None,
        }
    }

    /// Whether the tested end received bytes of a SUBSCRIBE or an UNSUBSCRIBE that break a rule, or
    /// bytes that can't be cut into packets, among which such packets may be.
    pub fn receives_unclear(&self) -> bool
        ensures { result ≡ notes.receives_unclear self.now }
    {
        match self {
            Note::Recv(item) => item.is_unclear(),
            _ => false,
        }
    }

    /// The packet that the tested end received.
    #[inline]
    pub fn received_packet(&self) -> Option<&PacketNote>
        ensures { option_map (λ packet. packet.now) result ≡ notes.received_packet self.now }
    {
        match self {
            Note::Recv(ItemNote::Packet(packet)) => Some(packet),
            _ => None,
        }
    }

    /// The fields of the packet that the tested end received.
    #[inline]
    pub fn received_fields(&self) -> Option<&PacketFields>
        ensures { option_map (λ fields. fields.now) result ≡ notes.received_fields self.now }
    {
        match self {
            Note::Recv(ItemNote::Packet(packet)) => Some(&packet.fields),
            _ => None,
        }
    }

    /// The fields of the packet, if it is from the client; the tested end has this role.
    #[inline]
    pub fn from_client(&self, role: Role) -> Option<&PacketFields>
        ensures { option_map (λ fields. fields.now) result ≡ notes.from_client role self.now }
    {
        match role {
            Role::Client => self.sent_fields(),
            Role::Server => self.received_fields(),
        }
    }

    /// The fields of the packet, if it is from the server; the tested end has this role.
    #[inline]
    pub fn from_server(&self, role: Role) -> Option<&PacketFields>
        ensures { option_map (λ fields. fields.now) result ≡ notes.from_server role self.now }
    {
        match role {
            Role::Client => self.received_fields(),
            Role::Server => self.sent_fields(),
        }
    }

    /// Whether the tested end sent a packet, or bytes that break a rule.
    #[inline]
    pub fn is_typed_sent(&self) -> bool
        ensures { result ≡ is_some_and notes.is_typed (notes.sent_item self.now) }
    {
        matches!(
            self,
            Note::Sent(ItemNote::Packet(_)) | Note::Sent(ItemNote::Bad { .. })
        )
    }

    /// Whether the tested end sent an item of this type.
    #[inline]
    pub fn sends_type(&self, packet_type: PacketType) -> bool
        ensures { result ≡ notes.sends_type packet_type self.now }
    {
        match self {
            Note::Sent(item) => item.is_of_type(packet_type),
            _ => false,
        }
    }

    /// Whether the tested end received an item of this type.
    #[inline]
    pub fn receives_type(&self, packet_type: PacketType) -> bool
        ensures { result ≡ notes.receives_type packet_type self.now }
    {
        match self {
            Note::Recv(item) => item.is_of_type(packet_type),
            _ => false,
        }
    }

    /// The PUBLISH that the tested end sent.
    #[inline]
    pub fn sent_publish(&self) -> Option<&PublishNote>
        ensures { option_map (λ publish. publish.now) result ≡ notes.sent_publish self.now }
    {
        self.sent_fields()?.publish()
    }

    /// The PUBLISH that the tested end received.
    #[inline]
    pub fn received_publish(&self) -> Option<&PublishNote>
        ensures { option_map (λ publish. publish.now) result ≡ notes.received_publish self.now }
    {
        self.received_fields()?.publish()
    }

    /// The DISCONNECT that the tested end sent.
    #[inline]
    pub fn sent_disconnect(&self) -> Option<DisconnectNote>
        ensures { result ≡ notes.sent_disconnect self.now }
    {
        self.sent_fields()?.disconnect()
    }

    /// What a SUBSCRIBE that the tested end sent asks for.
    #[inline]
    pub fn sent_wishes(&self) -> Option<WishesNote>
        ensures { result ≡ notes.sent_wishes self.now }
    {
        self.sent_fields()?.wishes()
    }

    /// The Reason Code of a PUBACK or PUBREC that the tested end sent.
    #[inline]
    pub fn sent_receipt_code(&self) -> Option<u8>
        ensures { result ≡ notes.sent_receipt_code self.now }
    {
        self.sent_fields()?.receipt_code()
    }

    /// The CONNACK that the tested end sent.
    #[inline]
    pub fn sent_connack(&self) -> Option<&ConnackNote>
        ensures { option_map (λ connack. connack.now) result ≡ notes.sent_connack self.now }
    {
        self.sent_fields()?.connack()
    }

    /// The CONNECT, if it is from the client; the tested end has this role.
    #[inline]
    pub fn connect(&self, role: Role) -> Option<&ConnectNote>
        ensures { option_map (λ connect. connect.now) result ≡ notes.connect_of role self.now }
    {
        self.from_client(role)?.connect()
    }

    /// The Authentication Method of the CONNECT, if that is from the client; the tested end has
    /// this role.
    #[inline]
    pub fn connect_method(&self, role: Role) -> Option<&Method>
        ensures { option_map (λ method. method.now) result ≡ notes.connect_method role self.now }
    {
        self.from_client(role)?.connect_method()
    }

    /// The Authentication Method of the AUTH or the CONNACK that the tested end sent, if it has
    /// one.
    #[inline]
    pub fn sent_method(&self) -> Option<&str>
        ensures { option_map (λ method. method.now) result ≡ notes.sent_method self.now }
    {
        self.sent_fields()?.method()
    }

    /// The CONNACK, if it is from the server; the tested end has this role.
    #[inline]
    pub fn connack(&self, role: Role) -> Option<&ConnackNote>
        ensures { option_map (λ connack. connack.now) result ≡ notes.connack_of role self.now }
    {
        self.from_server(role)?.connack()
    }

    /// The DISCONNECT, if it is from the client; the tested end has this role.
    #[inline]
    pub fn client_disconnect(&self, role: Role) -> Option<DisconnectNote>
        ensures { result ≡ notes.client_disconnect role self.now }
    {
        self.from_client(role)?.disconnect()
    }

    /// What becomes of the connection by this event, if that wasn't decided before: a CONNACK from
    /// the server decides it, and so does the connection's end (MQTT 5.0, section 3.2.2).
    #[inline]
    pub fn decides(&self, role: Role) -> Option<Fate>
        ensures { result ≡ notes.decides role self.now }
    {
        if self.is_close() {
            return Some(Fate::Void);
        }
        match self.connack(role) {
            Some(connack) => Some(connack.fate()),
            None => None,
        }
    }

    /// The Packet Identifier of the PUBLISH of QoS above 0 that the tested end sent (MQTT 5.0,
    /// section 2.2.1).
    #[inline]
    pub fn delivery(&self) -> Option<u16>
        ensures { result ≡ notes.delivery_of self.now }
    {
        self.sent_publish()?.delivery()
    }

    /// The Packet Identifier that the event opens: a new PUBLISH of QoS above 0 is sent (MQTT 5.0,
    /// section 2.2.1).
    #[inline]
    pub fn opener(&self) -> Option<u16>
        ensures { result ≡ notes.opener_of self.now }
    {
        self.sent_publish()?.opener()
    }

    /// The Packet Identifier of a PUBLISH of QoS above 0 that the tested end sent with DUP 1 (MQTT
    /// 5.0, section 4.4).
    #[inline]
    pub fn resend(&self) -> Option<u16>
        ensures { result ≡ notes.resend_of self.now }
    {
        self.sent_publish()?.resend()
    }

    /// The Packet Identifier that the event closes: a PUBACK, a PUBCOMP or a refusing PUBREC is
    /// received (MQTT 5.0, section 2.2.1).
    #[inline]
    pub fn closer(&self) -> Option<u16>
        ensures { result ≡ notes.closer_of self.now }
    {
        self.received_fields()?.settled_identifier()
    }

    /// The Packet Identifier that the event takes: it opens it, or a client sends a SUBSCRIBE or
    /// UNSUBSCRIBE under it (MQTT 5.0, section 2.2.1).
    #[inline]
    pub fn taken_identifier(&self, role: Role) -> Option<u16>
        ensures { result ≡ taken_by role self.now }
    {
        match role {
            Role::Client => self.client_takes(),
            Role::Server => self.opener(),
        }
    }

    // The Packet Identifier that a client takes with the packet.
    #[inline]
    fn client_takes(&self) -> Option<u16>
        ensures { result ≡ taken_by roles.Client self.now }
    {
        self.sent_fields()?.client_takes()
    }

    /// The Packet Identifier of the PUBLISH of QoS 1 that the tested end received: it is answered
    /// by a PUBACK (MQTT 5.0, section 4.3.2).
    #[inline]
    pub fn received_at_least_once(&self) -> Option<u16>
        ensures { result ≡ notes.received_once_acknowledged self.now }
    {
        self.received_publish()?.at_least_once()
    }

    /// The Packet Identifier of the PUBLISH of QoS 2 that the tested end received: it is answered
    /// by a PUBREC (MQTT 5.0, section 4.3.3).
    #[inline]
    pub fn received_exactly_once(&self) -> Option<u16>
        ensures { result ≡ notes.received_exactly_once self.now }
    {
        self.received_publish()?.exactly_once()
    }

    /// The Packet Identifier of the PUBACK that the tested end sent.
    #[inline]
    pub fn sent_puback(&self) -> Option<u16>
        ensures { result ≡ notes.sent_as notes.puback_in self.now }
    {
        self.sent_fields()?.puback()
    }

    /// The Packet Identifier of the PUBREC that the tested end sent.
    #[inline]
    pub fn sent_pubrec(&self) -> Option<u16>
        ensures { result ≡ notes.sent_as notes.pubrec_in self.now }
    {
        self.sent_fields()?.pubrec()
    }

    /// The Packet Identifier of the PUBREL that the tested end sent.
    #[inline]
    pub fn sent_pubrel(&self) -> Option<u16>
        ensures { result ≡ notes.sent_as notes.pubrel_in self.now }
    {
        self.sent_fields()?.pubrel()
    }

    /// The Packet Identifier of the PUBCOMP that the tested end sent.
    #[inline]
    pub fn sent_pubcomp(&self) -> Option<u16>
        ensures { result ≡ notes.sent_as notes.pubcomp_in self.now }
    {
        self.sent_fields()?.pubcomp()
    }

    /// The Packet Identifier of the SUBSCRIBE that the tested end sent.
    #[inline]
    pub fn sent_subscribe(&self) -> Option<u16>
        ensures { result ≡ notes.sent_as notes.subscribe_in self.now }
    {
        self.sent_fields()?.subscribe()
    }

    /// The Packet Identifier of the SUBACK that the tested end sent.
    #[inline]
    pub fn sent_suback(&self) -> Option<u16>
        ensures { result ≡ notes.sent_as notes.suback_in self.now }
    {
        self.sent_fields()?.suback()
    }

    /// The Packet Identifier of the UNSUBSCRIBE that the tested end sent.
    #[inline]
    pub fn sent_unsubscribe(&self) -> Option<u16>
        ensures { result ≡ notes.sent_as notes.unsubscribe_in self.now }
    {
        self.sent_fields()?.unsubscribe()
    }

    /// The Packet Identifier of the UNSUBACK that the tested end sent.
    #[inline]
    pub fn sent_unsuback(&self) -> Option<u16>
        ensures { result ≡ notes.sent_as notes.unsuback_in self.now }
    {
        self.sent_fields()?.unsuback()
    }

    /// The Packet Identifier of the PUBREL that the tested end received.
    #[inline]
    pub fn received_pubrel(&self) -> Option<u16>
        ensures { result ≡ notes.received_as notes.pubrel_in self.now }
    {
        self.received_fields()?.pubrel()
    }

    /// The Packet Identifier of the SUBSCRIBE that the tested end received.
    #[inline]
    pub fn received_subscribe(&self) -> Option<u16>
        ensures { result ≡ notes.received_as notes.subscribe_in self.now }
    {
        self.received_fields()?.subscribe()
    }

    /// The Packet Identifier of the SUBACK that the tested end received.
    #[inline]
    pub fn received_suback(&self) -> Option<u16>
        ensures { result ≡ notes.received_as notes.suback_in self.now }
    {
        self.received_fields()?.suback()
    }

    /// The Packet Identifier of the UNSUBSCRIBE that the tested end received.
    #[inline]
    pub fn received_unsubscribe(&self) -> Option<u16>
        ensures { result ≡ notes.received_as notes.unsubscribe_in self.now }
    {
        self.received_fields()?.unsubscribe()
    }

    /// The Packet Identifier of the UNSUBACK that the tested end received.
    #[inline]
    pub fn received_unsuback(&self) -> Option<u16>
        ensures { result ≡ notes.received_as notes.unsuback_in self.now }
    {
        self.received_fields()?.unsuback()
    }

    /// The Packet Identifier of the PUBREC below 0x80 that the tested end received: it is answered
    /// by a PUBREL (MQTT 5.0, section 4.3.3).
    #[inline]
    pub fn received_accepting_pubrec(&self) -> Option<u16>
        ensures { result ≡ notes.received_as notes.accepting_pubrec_in self.now }
    {
        self.received_fields()?.accepting_pubrec()
    }

    /// The Packet Identifier of the received QoS 2 PUBLISH whose exchange the tested end ended: it
    /// sent a PUBCOMP or a refusing PUBREC (MQTT 5.0, section 4.3.3).
    #[inline]
    pub fn ender(&self) -> Option<u16>
        ensures { result ≡ notes.sent_as notes.ended_in self.now }
    {
        self.sent_fields()?.ended_identifier()
    }

    /// The Packet Identifier of the PUBREC of 0x10, No matching subscribers, that the tested end
    /// sent (MQTT 5.0, section 3.5.2.1).
    #[inline]
    pub fn sent_unmatched_pubrec(&self) -> Option<u16>
        ensures { result ≡ notes.sent_as notes.unmatched_pubrec_in self.now }
    {
        self.sent_fields()?.unmatched_pubrec()
    }

    /// The Packet Identifier of the PUBCOMP of 0x00 that the tested end sent (MQTT 5.0, section
    /// 3.7.2.1).
    #[inline]
    pub fn sent_success_pubcomp(&self) -> Option<u16>
        ensures { result ≡ notes.sent_as notes.success_pubcomp_in self.now }
    {
        self.sent_fields()?.success_pubcomp()
    }

    /// Whether the tested end sent a PINGRESP (MQTT 5.0, section 3.13).
    #[inline]
    pub fn is_sent_pingresp(&self) -> bool
        ensures { result ≡ notes.is_sent_pingresp self.now }
    {
        match self {
            Note::Sent(ItemNote::Packet(packet)) => packet.fields.is_pingresp(),
            _ => false,
        }
    }

    /// Whether the tested end received a PINGREQ (MQTT 5.0, section 3.12).
    #[inline]
    pub fn is_received_pingreq(&self) -> bool
        ensures { result ≡ notes.is_received_pingreq self.now }
    {
        match self {
            Note::Recv(ItemNote::Packet(packet)) => packet.fields.is_pingreq(),
            _ => false,
        }
    }

    /// The rule that the bytes break which the tested end sent, and where in the packet.
    #[inline]
    pub fn body_fault(&self) -> Option<BodyFault>
        ensures { result ≡ notes.sent_fault self.now }
    {
        match self {
            Note::Sent(item) => item.body_fault(),
            _ => None,
        }
    }
}
