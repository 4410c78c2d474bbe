//! What the statements look at in a packet.
ghost use Rattle.std.specs.Prelude.{◌≡◌, ◌==◌, option_map, not, Some};
ghost use Rattle.std.specs.Option.{option_and_then, option_or};
ghost use Rattle.mq_rules.specs.Words.{only};
ghost use Rattle.mq_rules.specs.Notes.{fate_by, resumed_by, refuses as is_refusing, is_acknowledged, delivery_in, opener_in, resend_in, is_at_least_once, is_exactly_once, fields_type, connect_in, connect_method_in, method_in, is_auth as authenticates, connack_in, publish_in, disconnect_in, wishes_in, receipt_code_in, puback_in, pubrec_in, accepting_pubrec_in, pubrel_in, pubcomp_in, subscribe_in, suback_in, unsubscribe_in, unsuback_in, settled_in, ended_in, unmatched_pubrec_in, success_pubcomp_in, is_pingreq as pings, is_pingresp as answers_ping, is_session_packet as needs_a_session, may_explain as explains};

use crate::fate::Fate;
use crate::identifier_list::IdentifierList;
use crate::lists::{CodeList, FilterList};
use crate::method::Method;
use crate::text::Text;
use mq_packet::{PacketType, Qos};

/// The lowest Reason Code that refuses (MQTT 5.0, section 2.4).
const REFUSING: u8 = 0x80;

/// The Reason Code No matching subscribers of a PUBREC (MQTT 5.0, section 3.5.2.1).
const NO_MATCH: u8 = 0x10;

/// The Reason Code Success (MQTT 5.0, section 2.4).
const SUCCESS: u8 = 0x00;

/// What the statements look at in a Will (MQTT 5.0, section 3.1.2.5).
#[derive(Clone, Copy, Debug, PartialEq, Eq)]
pub struct WillNote {
    /// The Will QoS.
    pub qos: Qos,
    /// The Will Retain flag.
    pub retain: bool,
}

/// What the statements look at in a CONNECT (MQTT 5.0, section 3.1).
#[derive(Clone, Copy, Debug, PartialEq, Eq)]
pub struct ConnectNote {
    /// Clean Start: whether the client asks for a new session.
    pub clean_start: bool,
    /// Whether the Client Identifier is empty, so that the server is to assign one.
    pub is_unnamed: bool,
    /// The Session Expiry Interval, in seconds.
    pub session_expiry: Option<u32>,
    /// The Request Problem Information, 0 or 1.
    pub request_problem_information: Option<u8>,
    /// The Request Response Information, 0 or 1.
    pub request_response_information: Option<u8>,
    /// The Receive Maximum, 1 to 65,535.
    pub receive_maximum: Option<u16>,
    /// The Topic Alias Maximum.
    pub topic_alias_maximum: Option<u16>,
    /// The Maximum Packet Size, in bytes; not 0.
    pub maximum_packet_size: Option<u32>,
    /// The Keep Alive, in seconds; 0 switches it off.
    pub keep_alive: u16,
    /// The Will, if there is one.
    pub will: Option<WillNote>,
    /// Whether it has an Authentication Method.
    pub has_authentication_method: bool,
}

/// What the statements look at in a CONNACK (MQTT 5.0, section 3.2).
#[derive(Clone, Copy, Debug, PartialEq, Eq)]
pub struct ConnackNote {
    /// Session Present: whether the server resumed a session that it had.
    pub session_present: bool,
    /// The Reason Code: 0x00 accepts the connection, 0x80 or more refuses it.
    pub code: u8,
    /// The Session Expiry Interval, in seconds.
    pub session_expiry: Option<u32>,
    /// The Receive Maximum, 1 to 65,535.
    pub receive_maximum: Option<u16>,
    /// The Topic Alias Maximum.
    pub topic_alias_maximum: Option<u16>,
    /// The Maximum QoS, 0 or 1.
    pub maximum_qos: Option<u8>,
    /// The Retain Available, 0 or 1.
    pub retain_available: Option<u8>,
    /// The Wildcard Subscription Available, 0 or 1.
    pub wildcard_subscription_available: Option<u8>,
    /// The Subscription Identifier Available, 0 or 1.
    pub subscription_identifier_available: Option<u8>,
    /// The Shared Subscription Available, 0 or 1.
    pub shared_subscription_available: Option<u8>,
    /// The Maximum Packet Size, in bytes; not 0.
    pub maximum_packet_size: Option<u32>,
    /// The Server Keep Alive, in seconds; 0 switches the Keep Alive off.
    pub server_keep_alive: Option<u16>,
    /// Whether it has an Assigned Client Identifier.
    pub has_assigned_identifier: bool,
    /// Whether it has Response Information.
    pub has_response_information: bool,
    /// Whether it has an Authentication Method.
    pub has_authentication_method: bool,
}

/// What the statements look at in a PUBLISH (MQTT 5.0, section 3.3).
#[derive(Debug, Drop)]
pub struct PublishNote {
    /// The Packet Identifier, if the QoS is above 0.
    pub identifier: Option<u16>,
    /// The Quality of Service.
    pub qos: Qos,
    /// The DUP flag.
    pub duplicate: bool,
    /// The RETAIN flag.
    pub retain: bool,
    /// The Topic Name of a PUBLISH that the tested end sent, empty if a Topic Alias stands for it.
    /// It is also empty for a PUBLISH that the tested end received, since no statement looks at it.
    pub topic: Text,
    /// The Topic Alias, 1 to 65,535.
    pub topic_alias: Option<u16>,
    /// Whether the Topic Alias stands for a Topic Name: that of the PUBLISH is empty.
    pub uses_alias: bool,
    /// Whether it has a Message Expiry Interval.
    pub has_message_expiry: bool,
    /// Whether it has a Subscription Identifier.
    pub has_subscription_identifier: bool,
    /// The Subscription Identifiers of a PUBLISH that the tested end sent, in order. There are none
    /// for a PUBLISH that the tested end received, since no statement looks at them.
    pub subscription_identifiers: IdentifierList,
}

/// What the statements look at in a DISCONNECT (MQTT 5.0, section 3.14).
#[derive(Clone, Copy, Debug, PartialEq, Eq)]
pub struct DisconnectNote {
    /// The Reason Code.
    pub code: u8,
    /// The Session Expiry Interval, in seconds.
    pub session_expiry: Option<u32>,
}

/// What a SUBSCRIBE asks for (MQTT 5.0, sections 3.8.2.1.2 and 3.8.3).
#[derive(Clone, Copy, Debug, PartialEq, Eq)]
pub struct WishesNote {
    /// Whether a filter has a wildcard; one of a shared subscription, after its name.
    pub has_wildcard: bool,
    /// The Subscription Identifier, if it has one, 1 to 268,435,455.
    pub subscription_identifier: Option<u32>,
    /// Whether a filter asks for a shared subscription: it begins with `$share/`.
    pub has_share: bool,
    /// Whether the name of a shared subscription is empty or has a wildcard, or no filter follows.
    pub has_misnamed_share: bool,
    /// Whether No Local is 1 for a shared subscription.
    pub has_no_local_share: bool,
}

/// What the statements look at in a packet, by its type (MQTT 5.0, section 2.1.2).
#[derive(Debug, Drop)]
pub enum PacketFields {
    /// CONNECT.
    Connect {
        /// What the statements look at in it, but for its Authentication Method.
        note: ConnectNote,
        /// Its Authentication Method.
        method: Method,
    },
    /// CONNACK.
    Connack {
        /// What the statements look at in it, but for its Authentication Method.
        note: ConnackNote,
        /// The Authentication Method of a CONNACK that the tested end sent. There is none for one
        /// that the tested end received, since no statement looks at it.
        method: Method,
    },
    /// PUBLISH.
    Publish(PublishNote),
    /// PUBACK.
    Puback {
        /// The Packet Identifier of the PUBLISH that it answers.
        identifier: u16,
        /// The Reason Code.
        code: u8,
    },
    /// PUBREC.
    Pubrec {
        /// The Packet Identifier of the PUBLISH that it answers.
        identifier: u16,
        /// The Reason Code: 0x80 or more refuses the PUBLISH.
        code: u8,
    },
    /// PUBREL.
    Pubrel {
        /// The Packet Identifier of the PUBLISH that it is about.
        identifier: u16,
        /// The Reason Code.
        code: u8,
    },
    /// PUBCOMP.
    Pubcomp {
        /// The Packet Identifier of the PUBLISH that it is about.
        identifier: u16,
        /// The Reason Code.
        code: u8,
    },
    /// SUBSCRIBE.
    Subscribe {
        /// The Packet Identifier.
        identifier: u16,
        /// The Topic Filters of a SUBSCRIBE that the tested end received. It is empty for one that
        /// the tested end sent, since no statement looks at them.
        filters: FilterList,
        /// What it asks for.
        wishes: WishesNote,
    },
    /// SUBACK.
    Suback {
        /// The Packet Identifier of the SUBSCRIBE that it answers.
        identifier: u16,
        /// The Reason Codes of a SUBACK that the tested end sent. It is empty for one that the
        /// tested end received, since no statement looks at them.
        codes: CodeList,
    },
    /// UNSUBSCRIBE.
    Unsubscribe {
        /// The Packet Identifier.
        identifier: u16,
        /// The Topic Filters of an UNSUBSCRIBE that the tested end received. It is empty for one
        /// that the tested end sent, since no statement looks at them.
        filters: FilterList,
    },
    /// UNSUBACK.
    Unsuback {
        /// The Packet Identifier of the UNSUBSCRIBE that it answers.
        identifier: u16,
        /// The Reason Codes of an UNSUBACK that the tested end sent. It is empty for one that the
        /// tested end received, since no statement looks at them.
        codes: CodeList,
    },
    /// PINGREQ.
    Pingreq,
    /// PINGRESP.
    Pingresp,
    /// DISCONNECT.
    Disconnect(DisconnectNote),
    /// AUTH.
    Auth {
        /// The Authentication Method of an AUTH that the tested end sent. There is none for one
        /// that the tested end received, since no statement looks at it.
        method: Method,
    },
}

/// What the statements look at in a packet.
#[derive(Debug, Drop)]
pub struct PacketNote {
    /// How many bytes the whole packet has.
    pub size: u32,
    /// Whether it has a Reason String, in its own property list.
    pub has_reason_string: bool,
    /// Whether it has a User Property, in its own property list.
    pub has_user_property: bool,
    /// The fields of its type.
    pub fields: PacketFields,
}

impl ConnackNote {
    /// What becomes of the connection by this CONNACK of the server (MQTT 5.0, section 3.2.2): a
    /// code other than 0x00 refuses it.
    #[inline]
    pub fn fate(&self) -> Fate
        ensures { result ≡ fate_by self.now }
    {
        if self.code != SUCCESS {
            return Fate::Void;
        }
        if self.session_present {
            Fate::Resumed
        } else {
            Fate::New
        }
    }

    /// Whether it accepts the connection and resumes a session (MQTT 5.0, section 3.2.2.1.1).
    #[inline]
    pub fn resumes(&self) -> bool
        ensures { result ≡ resumed_by self.now }
    {
        self.code == SUCCESS && self.session_present
    }

    /// Whether its Reason Code is 0x80 or more: the server then closes the connection (MQTT 5.0,
    /// section 3.2.2.2).
    #[inline]
    pub fn refuses(&self) -> bool
        ensures { result ≡ is_refusing self.now.code }
    {
        self.code >= REFUSING
    }
}

// The Packet Identifier of a PUBLISH, if its QoS is 1.
#[inline(always)]
pub(crate) fn at_least_once(qos: Qos, identifier: Option<u16>) -> Option<u16>
    ensures { result ≡ only (is_at_least_once qos) identifier }
{
    match qos {
        Qos::AtLeastOnce => identifier,
        Qos::AtMostOnce | Qos::ExactlyOnce => None,
    }
}

// The Packet Identifier of a PUBLISH, if its QoS is 2.
#[inline(always)]
pub(crate) fn exactly_once(qos: Qos, identifier: Option<u16>) -> Option<u16>
    ensures { result ≡ only (is_exactly_once qos) identifier }
{
    match qos {
        Qos::ExactlyOnce => identifier,
        Qos::AtMostOnce | Qos::AtLeastOnce => None,
    }
}

// The Packet Identifier of a PUBLISH, if its QoS is above 0.
#[inline(always)]
pub(crate) fn delivered(qos: Qos, identifier: Option<u16>) -> Option<u16>
    ensures { result ≡ only (is_acknowledged qos) identifier }
{
    match qos {
        Qos::AtMostOnce => None,
        Qos::AtLeastOnce | Qos::ExactlyOnce => identifier,
    }
}

// The Packet Identifier, if the Reason Code of a PUBREC refuses.
#[inline(always)]
pub(crate) fn refused(identifier: u16, code: u8) -> Option<u16>
    ensures { result ≡ only (is_refusing code) (Some identifier) }
{
    (code >= REFUSING).then_some(identifier)
}

// The Packet Identifier, if the Reason Code of a PUBCOMP is Success.
#[inline(always)]
pub(crate) fn succeeded(identifier: u16, code: u8) -> Option<u16>
    ensures { result ≡ only (code == 0) (Some identifier) }
{
    (code == SUCCESS).then_some(identifier)
}

// The Packet Identifier of a PUBREC, if its Reason Code doesn't refuse.
#[inline(always)]
pub(crate) fn accepted(identifier: u16, code: u8) -> Option<u16>
    ensures { result ≡ only (not (is_refusing code)) (Some identifier) }
{
    if code < REFUSING {
        return Some(identifier);
    }
    None
}

impl PublishNote {
    /// The Packet Identifier, if the QoS is above 0 (MQTT 5.0, section 2.2.1).
    #[inline]
    pub fn delivery(&self) -> Option<u16>
        ensures { result ≡ delivery_in self.now }
    {
        delivered(self.qos, self.identifier)
    }

    /// The Packet Identifier that it opens: its QoS is above 0, and DUP is 0 (MQTT 5.0, section
    /// 2.2.1).
    #[inline]
    pub fn opener(&self) -> Option<u16>
        ensures { result ≡ opener_in self.now }
    {
        if self.duplicate {
            None
        } else {
            self.delivery()
        }
    }

    /// The Packet Identifier under which it is sent again: its QoS is above 0, and DUP is 1 (MQTT
    /// 5.0, section 4.4).
    #[inline]
    pub fn resend(&self) -> Option<u16>
        ensures { result ≡ resend_in self.now }
    {
        if self.duplicate {
            self.delivery()
        } else {
            None
        }
    }

    /// The Packet Identifier of a PUBLISH of QoS 1 (MQTT 5.0, section 4.3.2).
    #[inline]
    pub fn at_least_once(&self) -> Option<u16>
        ensures { result ≡ only (is_at_least_once self.now.qos) self.now.identifier }
    {
        at_least_once(self.qos, self.identifier)
    }

    /// The Packet Identifier of a PUBLISH of QoS 2 (MQTT 5.0, section 4.3.3).
    #[inline]
    pub fn exactly_once(&self) -> Option<u16>
        ensures { result ≡ only (is_exactly_once self.now.qos) self.now.identifier }
    {
        exactly_once(self.qos, self.identifier)
    }
}

impl PacketFields {
    /// The packet's type (MQTT 5.0, section 2.1.2).
    #[inline]
    pub fn kind(&self) -> PacketType
        ensures { result ≡ fields_type self.now }
    {
        match self {
            PacketFields::Connect { .. } => PacketType::Connect,
            PacketFields::Connack { .. } => PacketType::Connack,
            PacketFields::Publish(_) => PacketType::Publish,
            PacketFields::Puback { .. } => PacketType::Puback,
            PacketFields::Pubrec { .. } => PacketType::Pubrec,
            PacketFields::Pubrel { .. } => PacketType::Pubrel,
            PacketFields::Pubcomp { .. } => PacketType::Pubcomp,
            PacketFields::Subscribe { .. } => PacketType::Subscribe,
            PacketFields::Suback { .. } => PacketType::Suback,
            PacketFields::Unsubscribe { .. } => PacketType::Unsubscribe,
            PacketFields::Unsuback { .. } => PacketType::Unsuback,
            PacketFields::Pingreq => PacketType::Pingreq,
            PacketFields::Pingresp => PacketType::Pingresp,
            PacketFields::Disconnect(_) => PacketType::Disconnect,
            PacketFields::Auth { .. } => PacketType::Auth,
        }
    }

    /// What is noted of a CONNECT.
    #[inline]
    pub fn connect(&self) -> Option<&ConnectNote>
        ensures { option_map (λ note. note.now) result ≡ connect_in self.now }
    {
        match self {
            PacketFields::Connect { note, .. } => Some(note),
            _ => None,
        }
    }

    /// What is noted of a CONNACK.
    #[inline]
    pub fn connack(&self) -> Option<&ConnackNote>
        ensures { option_map (λ note. note.now) result ≡ connack_in self.now }
    {
        match self {
            PacketFields::Connack { note, .. } => Some(note),
            _ => None,
        }
    }

    /// The Authentication Method of a CONNECT, if it has one.
    #[inline]
    pub fn connect_method(&self) -> Option<&Method>
        ensures { option_map (λ method. method.now) result ≡ connect_method_in self.now }
    {
        match self {
            PacketFields::Connect { method, .. } => Some(method),
            _ => None,
        }
    }

    /// The Authentication Method of an AUTH or of a CONNACK that was sent, if it has one.
    #[inline]
    pub fn method(&self) -> Option<&str>
        ensures { option_map (λ method. method.now) result ≡ method_in self.now }
    {
        match self {
            PacketFields::Auth { method } | PacketFields::Connack { method, .. } => method.as_str(),
            _ => None,
        }
    }

    /// Whether it is an AUTH.
    #[inline]
    pub fn is_auth(&self) -> bool
        ensures { result ≡ authenticates self.now }
    {
        matches!(self, PacketFields::Auth { .. })
    }

    /// What is noted of a PUBLISH.
    #[inline]
    pub fn publish(&self) -> Option<&PublishNote>
        ensures { option_map (λ note. note.now) result ≡ publish_in self.now }
    {
        match self {
            PacketFields::Publish(note) => Some(note),
            _ => None,
        }
    }

    /// What is noted of a DISCONNECT.
    #[inline]
    pub fn disconnect(&self) -> Option<DisconnectNote>
        ensures { result ≡ disconnect_in self.now }
    {
        match self {
            PacketFields::Disconnect(note) => Some(*note),
            _ => None,
        }
    }

    /// What a SUBSCRIBE asks for.
    #[inline]
    pub fn wishes(&self) -> Option<WishesNote>
        ensures { result ≡ wishes_in self.now }
    {
        match self {
            PacketFields::Subscribe { wishes, .. } => Some(*wishes),
            _ => None,
        }
    }

    /// The Reason Code of a PUBACK or PUBREC (MQTT 5.0, sections 3.4.2.1 and 3.5.2.1).
    #[inline]
    pub fn receipt_code(&self) -> Option<u8>
        ensures { result ≡ receipt_code_in self.now }
    {
        match self {
            PacketFields::Puback { code, .. } | PacketFields::Pubrec { code, .. } => Some(*code),
            _ => None,
        }
    }

    /// The Packet Identifier of a PUBACK.
    #[inline]
    pub fn puback(&self) -> Option<u16>
        ensures { result ≡ puback_in self.now }
    {
        match self {
            PacketFields::Puback { identifier, .. } => Some(*identifier),
            _ => None,
        }
    }

    /// The Packet Identifier of a PUBREC.
    #[inline]
    pub fn pubrec(&self) -> Option<u16>
        ensures { result ≡ pubrec_in self.now }
    {
        match self {
            PacketFields::Pubrec { identifier, .. } => Some(*identifier),
            _ => None,
        }
    }

    /// The Packet Identifier of a PUBREL.
    #[inline]
    pub fn pubrel(&self) -> Option<u16>
        ensures { result ≡ pubrel_in self.now }
    {
        match self {
            PacketFields::Pubrel { identifier, .. } => Some(*identifier),
            _ => None,
        }
    }

    /// The Packet Identifier of a PUBCOMP.
    #[inline]
    pub fn pubcomp(&self) -> Option<u16>
        ensures { result ≡ pubcomp_in self.now }
    {
        match self {
            PacketFields::Pubcomp { identifier, .. } => Some(*identifier),
            _ => None,
        }
    }

    /// The Packet Identifier of a SUBSCRIBE.
    #[inline]
    pub fn subscribe(&self) -> Option<u16>
        ensures { result ≡ subscribe_in self.now }
    {
        match self {
            PacketFields::Subscribe { identifier, .. } => Some(*identifier),
            _ => None,
        }
    }

    /// The Packet Identifier of a SUBACK.
    #[inline]
    pub fn suback(&self) -> Option<u16>
        ensures { result ≡ suback_in self.now }
    {
        match self {
            PacketFields::Suback { identifier, .. } => Some(*identifier),
            _ => None,
        }
    }

    /// The Packet Identifier of an UNSUBSCRIBE.
    #[inline]
    pub fn unsubscribe(&self) -> Option<u16>
        ensures { result ≡ unsubscribe_in self.now }
    {
        match self {
            PacketFields::Unsubscribe { identifier, .. } => Some(*identifier),
            _ => None,
        }
    }

    /// The Packet Identifier of an UNSUBACK.
    #[inline]
    pub fn unsuback(&self) -> Option<u16>
        ensures { result ≡ unsuback_in self.now }
    {
        match self {
            PacketFields::Unsuback { identifier, .. } => Some(*identifier),
            _ => None,
        }
    }

    /// The Packet Identifier of a PUBREC below 0x80, which accepts the PUBLISH (MQTT 5.0, section
    /// 4.3.3).
    #[inline]
    pub fn accepting_pubrec(&self) -> Option<u16>
        ensures { result ≡ accepting_pubrec_in self.now }
    {
        match self {
            PacketFields::Pubrec { identifier, code } => accepted(*identifier, *code),
            _ => None,
        }
    }

    /// The Packet Identifier of a PUBREC of 0x10, No matching subscribers (MQTT 5.0, section
    /// 3.5.2.1).
    #[inline]
    pub fn unmatched_pubrec(&self) -> Option<u16>
        ensures { result ≡ unmatched_pubrec_in self.now }
    {
        match self {
            PacketFields::Pubrec { identifier, code } => (*code == NO_MATCH).then_some(*identifier),
            _ => None,
        }
    }

    /// The Packet Identifier of a PUBCOMP of 0x00 (MQTT 5.0, section 3.7.2.1).
    #[inline]
    pub fn success_pubcomp(&self) -> Option<u16>
        ensures { result ≡ success_pubcomp_in self.now }
    {
        match self {
            PacketFields::Pubcomp { identifier, code } => succeeded(*identifier, *code),
            _ => None,
        }
    }

    /// The Packet Identifier that a PUBACK, a PUBCOMP or a refusing PUBREC sets free (MQTT 5.0,
    /// sections 4.3.2 and 4.3.3).
    #[inline]
    pub fn settled_identifier(&self) -> Option<u16>
        ensures { result ≡ settled_in self.now }
    {
        match self {
            PacketFields::Puback { identifier, .. } | PacketFields::Pubcomp { identifier, .. } =>
                Some(*identifier),
            PacketFields::Pubrec { identifier, code } => refused(*identifier, *code),
            _ => None,
        }
    }

    /// The Packet Identifier of the received QoS 2 PUBLISH whose exchange a PUBCOMP or a refusing
    /// PUBREC ends (MQTT 5.0, section 4.3.3).
    #[inline]
    pub fn ended_identifier(&self) -> Option<u16>
        ensures { result ≡ ended_in self.now }
    {
        match self {
            PacketFields::Pubcomp { identifier, .. } => Some(*identifier),
            PacketFields::Pubrec { identifier, code } => refused(*identifier, *code),
            _ => None,
        }
    }

    /// The Packet Identifier that a client takes with the packet: that of a new PUBLISH of QoS
    /// above 0, of a SUBSCRIBE or of an UNSUBSCRIBE (MQTT 5.0, section 2.2.1).
    #[inline]
    pub(crate) fn client_takes(&self) -> Option<u16>
        ensures { result ≡ option_or (option_and_then opener_in (publish_in self.now)) (option_or (subscribe_in self.now) (unsubscribe_in self.now)) }
    {
        match self {
            PacketFields::Publish(publish) => publish.opener(),
            PacketFields::Subscribe { identifier, .. }
            | PacketFields::Unsubscribe { identifier, .. } => Some(*identifier),
            _ => None,
        }
    }

    /// Whether it is a PINGREQ.
    #[inline]
    pub fn is_pingreq(&self) -> bool
        ensures { result ≡ pings self.now }
    {
        matches!(self, PacketFields::Pingreq)
    }

    /// Whether it is a PINGRESP.
    #[inline]
    pub fn is_pingresp(&self) -> bool
        ensures { result ≡ answers_ping self.now }
    {
        matches!(self, PacketFields::Pingresp)
    }

    /// Whether it is a PUBLISH, SUBSCRIBE or UNSUBSCRIBE, or acknowledges one: such a packet needs
    /// a session (MQTT 5.0, section 4.1).
    #[inline]
    pub fn is_session_packet(&self) -> bool
        ensures { result ≡ needs_a_session self.now }
    {
        !matches!(
            self,
            PacketFields::Connect { .. }
                | PacketFields::Connack { .. }
                | PacketFields::Pingreq
                | PacketFields::Pingresp
                | PacketFields::Disconnect(_)
                | PacketFields::Auth { .. }
        )
    }

    /// Whether it may have a Reason String or User Properties whatever the client asked for: a
    /// PUBLISH, a CONNACK or a DISCONNECT (MQTT 5.0, section 3.1.2.11.7).
    #[inline]
    pub fn may_explain(&self) -> bool
        ensures { result ≡ explains self.now }
    {
        matches!(
            self,
            PacketFields::Publish(_) | PacketFields::Connack { .. } | PacketFields::Disconnect(_)
        )
    }
}
