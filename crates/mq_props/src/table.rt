//! The properties, the type of their values, and the lists that they are allowed in (MQTT 5.0,
//! 2.2.2.2).

ghost use Rattle.std.specs.Prelude.{◌≡◌, ◌==◌, ◌<◌, IfSome};
ghost use Rattle.std.specs.Option.{option_map};
ghost use Rattle.std.specs.List.{list_any, find};
ghost use Rattle.mq_props.specs.Table.{place_number, same_place, row_view, rows_of, row_of, may_repeat};

/// Where a property list is: in one of the thirteen packets that have one, or before the Will of a
/// CONNECT (MQTT 5.0, 2.2.2.2 and 3.1.3.2).
#[derive(Debug, Clone, Copy, PartialEq, Eq)]
pub enum Place {
    /// A CONNECT packet's own list.
    Connect,
    /// The list of the Will that a CONNECT packet carries.
    Will,
    /// A CONNACK packet.
    Connack,
    /// A PUBLISH packet.
    Publish,
    /// A PUBACK packet.
    Puback,
    /// A PUBREC packet.
    Pubrec,
    /// A PUBREL packet.
    Pubrel,
    /// A PUBCOMP packet.
    Pubcomp,
    /// A SUBSCRIBE packet.
    Subscribe,
    /// A SUBACK packet.
    Suback,
    /// An UNSUBSCRIBE packet.
    Unsubscribe,
    /// An UNSUBACK packet.
    Unsuback,
    /// A DISCONNECT packet.
    Disconnect,
    /// An AUTH packet.
    Auth,
}

/// The type of a property's value (MQTT 5.0, 1.5).
#[derive(Debug, Clone, Copy, PartialEq, Eq)]
pub enum ValueType {
    Byte,
    TwoBytes,
    FourBytes,
    Varint,
    Text,
    Pair,
    Binary,
}

/// Which values of its type a property may have.
#[derive(Debug, Clone, Copy, PartialEq, Eq)]
pub enum Range {
    /// Any value.
    Any,
    /// Any value except 0.
    NotZero,
    /// Only 0 and 1.
    ZeroOrOne,
}

/// The Property Identifiers (MQTT 5.0, 2.2.2.2).
pub mod id {
    pub const PAYLOAD_FORMAT_INDICATOR: u8 = 0x01;

    pub const MESSAGE_EXPIRY_INTERVAL: u8 = 0x02;

    pub const CONTENT_TYPE: u8 = 0x03;

    pub const RESPONSE_TOPIC: u8 = 0x08;

    pub const CORRELATION_DATA: u8 = 0x09;

    pub const SUBSCRIPTION_IDENTIFIER: u8 = 0x0B;

    pub const SESSION_EXPIRY_INTERVAL: u8 = 0x11;

    pub const ASSIGNED_CLIENT_IDENTIFIER: u8 = 0x12;

    pub const SERVER_KEEP_ALIVE: u8 = 0x13;

    pub const AUTHENTICATION_METHOD: u8 = 0x15;

    pub const AUTHENTICATION_DATA: u8 = 0x16;

    pub const REQUEST_PROBLEM_INFORMATION: u8 = 0x17;

    pub const WILL_DELAY_INTERVAL: u8 = 0x18;

    pub const REQUEST_RESPONSE_INFORMATION: u8 = 0x19;

    pub const RESPONSE_INFORMATION: u8 = 0x1A;

    pub const SERVER_REFERENCE: u8 = 0x1C;

    pub const REASON_STRING: u8 = 0x1F;

    pub const RECEIVE_MAXIMUM: u8 = 0x21;

    pub const TOPIC_ALIAS_MAXIMUM: u8 = 0x22;

    pub const TOPIC_ALIAS: u8 = 0x23;

    pub const MAXIMUM_QOS: u8 = 0x24;

    pub const RETAIN_AVAILABLE: u8 = 0x25;

    pub const USER_PROPERTY: u8 = 0x26;

    pub const MAXIMUM_PACKET_SIZE: u8 = 0x27;

    pub const WILDCARD_SUBSCRIPTION_AVAILABLE: u8 = 0x28;

    pub const SUBSCRIPTION_IDENTIFIER_AVAILABLE: u8 = 0x29;

    pub const SHARED_SUBSCRIPTION_AVAILABLE: u8 = 0x2A;
}

/// A line of the table: the identifier, the type and the range of the value, and the lists that the
/// property is allowed in.
pub type Row = (u8, ValueType, Range, &'static [Place]);

use self::Place::*;
use self::Range::{Any, NotZero, ZeroOrOne};
use self::ValueType::{Binary, Byte, FourBytes, Pair, Text, TwoBytes, Varint};

/// The table of properties (MQTT 5.0, 2.2.2.2). It is proved equal to the one that the contracts
/// cite.
#[rattlefmt::skip]
pub const TABLE: [Row; 27] = [
    (id::PAYLOAD_FORMAT_INDICATOR, Byte, Any, &[Publish, Will]),
    (id::MESSAGE_EXPIRY_INTERVAL, FourBytes, Any, &[Publish, Will]),
    (id::CONTENT_TYPE, Text, Any, &[Publish, Will]),
    (id::RESPONSE_TOPIC, Text, Any, &[Publish, Will]),
    (id::CORRELATION_DATA, Binary, Any, &[Publish, Will]),
    (id::SUBSCRIPTION_IDENTIFIER, Varint, NotZero, &[Publish, Subscribe]),
    (id::SESSION_EXPIRY_INTERVAL, FourBytes, Any, &[Connect, Connack, Disconnect]),
    (id::ASSIGNED_CLIENT_IDENTIFIER, Text, Any, &[Connack]),
    (id::SERVER_KEEP_ALIVE, TwoBytes, Any, &[Connack]),
    (id::AUTHENTICATION_METHOD, Text, Any, &[Connect, Connack, Auth]),
    (id::AUTHENTICATION_DATA, Binary, Any, &[Connect, Connack, Auth]),
    (id::REQUEST_PROBLEM_INFORMATION, Byte, ZeroOrOne, &[Connect]),
    (id::WILL_DELAY_INTERVAL, FourBytes, Any, &[Will]),
    (id::REQUEST_RESPONSE_INFORMATION, Byte, ZeroOrOne, &[Connect]),
    (id::RESPONSE_INFORMATION, Text, Any, &[Connack]),
    (id::SERVER_REFERENCE, Text, Any, &[Connack, Disconnect]),
    (id::REASON_STRING, Text, Any, &[Connack, Puback, Pubrec, Pubrel, Pubcomp, Suback, Unsuback, Disconnect, Auth]),
    (id::RECEIVE_MAXIMUM, TwoBytes, NotZero, &[Connect, Connack]),
    (id::TOPIC_ALIAS_MAXIMUM, TwoBytes, Any, &[Connect, Connack]),
    (id::TOPIC_ALIAS, TwoBytes, NotZero, &[Publish]),
    (id::MAXIMUM_QOS, Byte, ZeroOrOne, &[Connack]),
    (id::RETAIN_AVAILABLE, Byte, ZeroOrOne, &[Connack]),
    (id::USER_PROPERTY, Pair, Any, &[Connect, Will, Connack, Publish, Puback, Pubrec, Pubrel, Pubcomp, Subscribe, Suback, Unsubscribe, Unsuback, Disconnect, Auth]),
    (id::MAXIMUM_PACKET_SIZE, FourBytes, NotZero, &[Connect, Connack]),
    (id::WILDCARD_SUBSCRIPTION_AVAILABLE, Byte, ZeroOrOne, &[Connack]),
    (id::SUBSCRIPTION_IDENTIFIER_AVAILABLE, Byte, ZeroOrOne, &[Connack]),
    (id::SHARED_SUBSCRIPTION_AVAILABLE, Byte, ZeroOrOne, &[Connack]),
];

// The first line of the table that has the identifier.
fn found(table: &[Row], id: u32) -> Option<Row>
    ensures { result ≡ find (λ row. row.0 == id) table.now }
{
    table
        .iter()
        .copied()
        .find(|(identifier, _, _, _)| u32::from(*identifier) == id)
}

// That line, which the contract compares with the lines of the definitions.
fn found_in(table: &[Row], id: u32) -> Option<Row>
    ensures { option_map row_view result ≡ find (λ row. row.id == id) (rows_of table.now) }
{
    found(table, id)
}

/// The line of a property, if the identifier is known.
#[tactic(auto, unfolding(crate::specs::Table::row_of, crate::specs::Table::rows))]
pub fn find_row(id: u32) -> Option<Row>
    ensures line { option_map row_view result ≡ row_of id }
    ensures bound { IfSome result (λ row. row.0 < 43) }
{
    found_in(&TABLE, id)
}

// The number of a place, by which the definitions compare places.
fn number(place: Place) -> u8
    ensures { result ≡ place_number place }
{
    place as u8
}

/// Whether the place is a PUBLISH packet.
pub fn is_publish(place: Place) -> bool
    ensures { result ≡ same_place place Place.Publish }
{
    number(place) == number(Publish)
}

/// Whether the place is one of the lists.
pub fn lists_place(lists: &[Place], place: Place) -> bool
    ensures { result ≡ list_any (λ p. same_place p place) lists.now }
{
    lists.iter().any(|p| number(*p) == number(place))
}

/// Whether a property may be in the place's list more than once.
pub fn may_repeat_in(place: Place, id: u8) -> bool
    ensures { result ≡ may_repeat place id }
{
    id == id::USER_PROPERTY || id == id::SUBSCRIPTION_IDENTIFIER && is_publish(place)
}
