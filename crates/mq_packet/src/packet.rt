//! The fifteen Control Packets (MQTT 5.0, section 2.1.2), whose texts, payloads and lists borrow
//! the body that they were read from.

use crate::filters::Filters;
use crate::reason_codes::Codes;
use mq_props::Props;

/// The Quality of Service of a PUBLISH or of a Will (MQTT 5.0, section 4.3).
#[derive(Clone, Copy, Debug, PartialEq, Eq)]
pub enum Qos {
    /// QoS 0: sent once, never acknowledged.
    AtMostOnce,
    /// QoS 1: answered by a PUBACK.
    AtLeastOnce,
    /// QoS 2: answered by a PUBREC, and completed by PUBREL and PUBCOMP.
    ExactlyOnce,
}

/// A message that the server publishes when the client is gone (MQTT 5.0, section 3.1.2.5).
#[derive(Debug, Drop)]
pub struct Will<'a> {
    /// Its Quality of Service.
    pub qos: Qos,
    /// Whether it is retained.
    pub retain: bool,
    /// The Will Properties.
    pub properties: Props<'a>,
    /// The Will Topic.
    pub topic: &'a str,
    /// The Will Payload: up to 65,535 bytes.
    pub payload: &'a [u8],
}

/// CONNECT (MQTT 5.0, section 3.1).
#[derive(Debug, Drop)]
pub struct Connect<'a> {
    /// Whether the client asks for a new session.
    pub clean_start: bool,
    /// The Keep Alive, in seconds; 0 switches it off.
    pub keep_alive: u16,
    /// The properties.
    pub properties: Props<'a>,
    /// The Client Identifier, which may be empty.
    pub client_identifier: &'a str,
    /// The Will.
    pub will: Option<Will<'a>>,
    /// The User Name.
    pub user_name: Option<&'a str>,
    /// The Password: up to 65,535 bytes.
    pub password: Option<&'a [u8]>,
}

/// CONNACK (MQTT 5.0, section 3.2).
#[derive(Debug, Drop)]
pub struct Connack<'a> {
    /// Whether the server resumed a session that it had.
    pub session_present: bool,
    /// The Reason Code: 0x00 accepts the connection.
    pub code: u8,
    /// The properties.
    pub properties: Props<'a>,
}

/// PUBLISH (MQTT 5.0, section 3.3).
#[derive(Debug, Drop)]
pub struct Publish<'a> {
    /// The DUP flag: set if the packet is sent again.
    pub duplicate: bool,
    /// The Quality of Service.
    pub qos: Qos,
    /// The RETAIN flag.
    pub retain: bool,
    /// The Topic Name: empty if a Topic Alias stands for it.
    pub topic: &'a str,
    /// The Packet Identifier, which is there exactly if the QoS is above 0.
    pub identifier: Option<u16>,
    /// The properties.
    pub properties: Props<'a>,
    /// The Application Message.
    pub payload: &'a [u8],
}

/// PUBACK, PUBREC, PUBREL or PUBCOMP (MQTT 5.0, sections 3.4 to 3.7).
#[derive(Debug, Drop)]
pub struct Acknowledgement<'a> {
    /// The Packet Identifier of the PUBLISH that it is about: 1 to 65,535.
    pub identifier: u16,
    /// The Reason Code: one of the packet's.
    pub code: u8,
    /// The properties.
    pub properties: Props<'a>,
    /// The body's length as it was read, which may be longer than needed; `None` if the packet
    /// wasn't read.
    pub read_len: Option<u32>,
}

/// SUBSCRIBE or UNSUBSCRIBE (MQTT 5.0, sections 3.8 and 3.10).
#[derive(Debug, Drop)]
pub struct Request<'a> {
    /// The Packet Identifier: 1 to 65,535.
    pub identifier: u16,
    /// The properties.
    pub properties: Props<'a>,
    /// The filters: with Subscription Options in a SUBSCRIBE, without in an UNSUBSCRIBE.
    pub filters: Filters<'a>,
}

/// SUBACK or UNSUBACK (MQTT 5.0, sections 3.9 and 3.11).
#[derive(Debug, Drop)]
pub struct Answer<'a> {
    /// The Packet Identifier of the packet that it answers: 1 to 65,535.
    pub identifier: u16,
    /// The properties.
    pub properties: Props<'a>,
    /// A Reason Code for each filter; there may be none.
    pub codes: Codes<'a>,
}

/// DISCONNECT or AUTH (MQTT 5.0, sections 3.14 and 3.15).
#[derive(Debug, Drop)]
pub struct ReasonPacket<'a> {
    /// The Reason Code: one of the packet's.
    pub code: u8,
    /// The properties.
    pub properties: Props<'a>,
    /// The body's length as it was read, which may be longer than needed; `None` if the packet
    /// wasn't read.
    pub read_len: Option<u32>,
}

/// A Control Packet.
#[derive(Debug, Drop)]
pub enum Packet<'a> {
    /// A client asks for a connection.
    Connect(Connect<'a>),
    /// The server answers a CONNECT.
    Connack(Connack<'a>),
    /// An Application Message.
    Publish(Publish<'a>),
    /// The answer to a PUBLISH of QoS 1.
    Puback(Acknowledgement<'a>),
    /// The first answer to a PUBLISH of QoS 2.
    Pubrec(Acknowledgement<'a>),
    /// The answer to a PUBREC.
    Pubrel(Acknowledgement<'a>),
    /// The answer to a PUBREL.
    Pubcomp(Acknowledgement<'a>),
    /// A client asks for messages.
    Subscribe(Request<'a>),
    /// The answer to a SUBSCRIBE.
    Suback(Answer<'a>),
    /// A client asks for no more messages.
    Unsubscribe(Request<'a>),
    /// The answer to an UNSUBSCRIBE.
    Unsuback(Answer<'a>),
    /// A client shows that it is alive.
    Pingreq,
    /// The answer to a PINGREQ.
    Pingresp,
    /// The connection's end is announced.
    Disconnect(ReasonPacket<'a>),
    /// A step of authentication.
    Auth(ReasonPacket<'a>),
}

/// The type of a Control Packet, by its number (MQTT 5.0, section 2.1.2).
#[derive(Clone, Copy, Debug, PartialEq, Eq)]
pub enum PacketType {
    /// CONNECT.
    Connect = 1,
    /// CONNACK.
    Connack = 2,
    /// PUBLISH.
    Publish = 3,
    /// PUBACK.
    Puback = 4,
    /// PUBREC.
    Pubrec = 5,
    /// PUBREL.
    Pubrel = 6,
    /// PUBCOMP.
    Pubcomp = 7,
    /// SUBSCRIBE.
    Subscribe = 8,
    /// SUBACK.
    Suback = 9,
    /// UNSUBSCRIBE.
    Unsubscribe = 10,
    /// UNSUBACK.
    Unsuback = 11,
    /// PINGREQ.
    Pingreq = 12,
    /// PINGRESP.
    Pingresp = 13,
    /// DISCONNECT.
    Disconnect = 14,
    /// AUTH.
    Auth = 15,
}

/// The four packets that acknowledge a PUBLISH (MQTT 5.0, sections 3.4 to 3.7).
#[derive(Clone, Copy, Debug, PartialEq, Eq)]
pub enum AcknowledgementKind {
    /// PUBACK.
    Puback,
    /// PUBREC.
    Pubrec,
    /// PUBREL.
    Pubrel,
    /// PUBCOMP.
    Pubcomp,
}

/// The two packets that name Topic Filters (MQTT 5.0, sections 3.8 and 3.10).
#[derive(Clone, Copy, Debug, PartialEq, Eq)]
pub enum RequestKind {
    /// SUBSCRIBE.
    Subscribe,
    /// UNSUBSCRIBE.
    Unsubscribe,
}

/// The two packets that have only a Reason Code and properties (MQTT 5.0, sections 3.14 and 3.15).
#[derive(Clone, Copy, Debug, PartialEq, Eq)]
pub enum ReasonPacketKind {
    /// DISCONNECT.
    Disconnect,
    /// AUTH.
    Auth,
}
