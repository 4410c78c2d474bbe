//! The twenty-seven properties (MQTT 5.0, 2.2.2.2).

ghost use Rattle.std.specs.Prelude.{◌≡◌, IsSome, IfSome, true};
ghost use Rattle.mq_props.specs.declared.table.ValueType.TheVariants as types;
ghost use Rattle.mq_props.specs.Table.{has_kind};
ghost use Rattle.mq_props.specs.Values.{value_type, byte_value, two_bytes_value, four_bytes_value, varint_value, text_value, pair_value, binary_value};
ghost use Rattle.mq_props.specs.Views.{item_view, value_view};
ghost use Rattle.mq_props.specs.Props.{prop_view};

use crate::table::id;
use crate::value::{Item, Value};

/// A property (MQTT 5.0, 2.2.2.2). Texts, pairs and binary data are borrowed.
#[derive(Debug, Clone, Copy)]
pub enum Prop<'a> {
    /// 0x01: whether the payload is text: 1 for UTF-8, 0 for unspecified bytes.
    PayloadFormatIndicator(u8),
    /// 0x02: the lifetime of a message, in seconds.
    MessageExpiryInterval(u32),
    /// 0x03: what kind of content the payload is.
    ContentType(&'a str),
    /// 0x08: the Topic Name for a response. In a PUBLISH it has no wildcard.
    ResponseTopic(&'a str),
    /// 0x09: data that says which request a response answers.
    CorrelationData(&'a [u8]),
    /// 0x0B: the identifier of a subscription, from 1 to 268,435,455.
    SubscriptionIdentifier(u32),
    /// 0x11: how long a session is kept after its connection closed, in seconds.
    SessionExpiryInterval(u32),
    /// 0x12: the Client Identifier that the server assigned.
    AssignedClientIdentifier(&'a str),
    /// 0x13: the Keep Alive that the server assigned, in seconds.
    ServerKeepAlive(u16),
    /// 0x15: the name of the method of extended authentication.
    AuthenticationMethod(&'a str),
    /// 0x16: the data of that method.
    AuthenticationData(&'a [u8]),
    /// 0x17: 1 if the client accepts Reason Strings and User Properties on any packet, else 0.
    RequestProblemInformation(u8),
    /// 0x18: how long the server waits before it publishes the Will, in seconds.
    WillDelayInterval(u32),
    /// 0x19: 1 if the client asks for Response Information, else 0.
    RequestResponseInformation(u8),
    /// 0x1A: the basis for a Response Topic that the client makes.
    ResponseInformation(&'a str),
    /// 0x1C: another server that the client may use.
    ServerReference(&'a str),
    /// 0x1F: a reason, for people to read.
    ReasonString(&'a str),
    /// 0x21: how many QoS 1 and QoS 2 publications may be in flight, from 1 to 65,535.
    ReceiveMaximum(u16),
    /// 0x22: the largest Topic Alias that the sender accepts, or 0 if it accepts none.
    TopicAliasMaximum(u16),
    /// 0x23: the number that stands for a topic, from 1 to 65,535.
    TopicAlias(u16),
    /// 0x24: the largest QoS that the server supports, 0 or 1.
    MaximumQos(u8),
    /// 0x25: 1 if the server supports retained messages, else 0.
    RetainAvailable(u8),
    /// 0x26: a name and a value, for the application.
    UserProperty(&'a str, &'a str),
    /// 0x27: the largest packet that the sender accepts, in bytes, from 1 on.
    MaximumPacketSize(u32),
    /// 0x28: 1 if the server supports wildcards in subscriptions, else 0.
    WildcardSubscriptionAvailable(u8),
    /// 0x29: 1 if the server supports Subscription Identifiers, else 0.
    SubscriptionIdentifierAvailable(u8),
    /// 0x2A: 1 if the server supports shared subscriptions, else 0.
    SharedSubscriptionAvailable(u8),
}

/// The property as a list has it: an identifier and a value.
#[rattlefmt::skip]
pub fn item_of<'a>(prop: Prop<'a>) -> Item<'a>
    ensures { item_view result ≡ prop_view prop.entry }
{
    match prop {
        Prop::PayloadFormatIndicator(number) => Item { id: id::PAYLOAD_FORMAT_INDICATOR, value: Value::Byte(number) },
        Prop::MessageExpiryInterval(number) => Item { id: id::MESSAGE_EXPIRY_INTERVAL, value: Value::FourBytes(number) },
        Prop::ContentType(text) => Item { id: id::CONTENT_TYPE, value: Value::Text(text) },
        Prop::ResponseTopic(text) => Item { id: id::RESPONSE_TOPIC, value: Value::Text(text) },
        Prop::CorrelationData(bytes) => Item { id: id::CORRELATION_DATA, value: Value::Binary(bytes) },
        Prop::SubscriptionIdentifier(number) => Item { id: id::SUBSCRIPTION_IDENTIFIER, value: Value::Varint(number) },
        Prop::SessionExpiryInterval(number) => Item { id: id::SESSION_EXPIRY_INTERVAL, value: Value::FourBytes(number) },
        Prop::AssignedClientIdentifier(text) => Item { id: id::ASSIGNED_CLIENT_IDENTIFIER, value: Value::Text(text) },
        Prop::ServerKeepAlive(number) => Item { id: id::SERVER_KEEP_ALIVE, value: Value::TwoBytes(number) },
        Prop::AuthenticationMethod(text) => Item { id: id::AUTHENTICATION_METHOD, value: Value::Text(text) },
        Prop::AuthenticationData(bytes) => Item { id: id::AUTHENTICATION_DATA, value: Value::Binary(bytes) },
        Prop::RequestProblemInformation(number) => Item { id: id::REQUEST_PROBLEM_INFORMATION, value: Value::Byte(number) },
        Prop::WillDelayInterval(number) => Item { id: id::WILL_DELAY_INTERVAL, value: Value::FourBytes(number) },
        Prop::RequestResponseInformation(number) => Item { id: id::REQUEST_RESPONSE_INFORMATION, value: Value::Byte(number) },
        Prop::ResponseInformation(text) => Item { id: id::RESPONSE_INFORMATION, value: Value::Text(text) },
        Prop::ServerReference(text) => Item { id: id::SERVER_REFERENCE, value: Value::Text(text) },
        Prop::ReasonString(text) => Item { id: id::REASON_STRING, value: Value::Text(text) },
        Prop::ReceiveMaximum(number) => Item { id: id::RECEIVE_MAXIMUM, value: Value::TwoBytes(number) },
        Prop::TopicAliasMaximum(number) => Item { id: id::TOPIC_ALIAS_MAXIMUM, value: Value::TwoBytes(number) },
        Prop::TopicAlias(number) => Item { id: id::TOPIC_ALIAS, value: Value::TwoBytes(number) },
        Prop::MaximumQos(number) => Item { id: id::MAXIMUM_QOS, value: Value::Byte(number) },
        Prop::RetainAvailable(number) => Item { id: id::RETAIN_AVAILABLE, value: Value::Byte(number) },
        Prop::UserProperty(name, value) => Item { id: id::USER_PROPERTY, value: Value::Pair(name, value) },
        Prop::MaximumPacketSize(number) => Item { id: id::MAXIMUM_PACKET_SIZE, value: Value::FourBytes(number) },
        Prop::WildcardSubscriptionAvailable(number) => Item { id: id::WILDCARD_SUBSCRIPTION_AVAILABLE, value: Value::Byte(number) },
        Prop::SubscriptionIdentifierAvailable(number) => Item { id: id::SUBSCRIPTION_IDENTIFIER_AVAILABLE, value: Value::Byte(number) },
        Prop::SharedSubscriptionAvailable(number) => Item { id: id::SHARED_SUBSCRIPTION_AVAILABLE, value: Value::Byte(number) },
    }
}

// The property of an identifier, whose values are of this type.
fn byte_prop<'a>(id: u8, number: u8) -> Option<Prop<'a>>
    ensures view { IfSome result (λ prop. prop_view prop ≡ record { id = id; value = byte_value number }) }
    ensures each { has_kind types.Byte id ≡ true → IsSome result }
{
    match id {
        id::PAYLOAD_FORMAT_INDICATOR => Some(Prop::PayloadFormatIndicator(number)),
        id::REQUEST_PROBLEM_INFORMATION => Some(Prop::RequestProblemInformation(number)),
        id::REQUEST_RESPONSE_INFORMATION => Some(Prop::RequestResponseInformation(number)),
        id::MAXIMUM_QOS => Some(Prop::MaximumQos(number)),
        id::RETAIN_AVAILABLE => Some(Prop::RetainAvailable(number)),
        id::WILDCARD_SUBSCRIPTION_AVAILABLE => Some(Prop::WildcardSubscriptionAvailable(number)),
        id::SUBSCRIPTION_IDENTIFIER_AVAILABLE => Some(Prop::SubscriptionIdentifierAvailable(
            number,
        )),
        id::SHARED_SUBSCRIPTION_AVAILABLE => Some(Prop::SharedSubscriptionAvailable(number)),
        _ => None,
    }
}

// The property of an identifier, whose values are of this type.
fn two_bytes_prop<'a>(id: u8, number: u16) -> Option<Prop<'a>>
    ensures view { IfSome result (λ prop. prop_view prop ≡ record { id = id; value = two_bytes_value number }) }
    ensures each { has_kind types.TwoBytes id ≡ true → IsSome result }
{
    match id {
        id::SERVER_KEEP_ALIVE => Some(Prop::ServerKeepAlive(number)),
        id::RECEIVE_MAXIMUM => Some(Prop::ReceiveMaximum(number)),
        id::TOPIC_ALIAS_MAXIMUM => Some(Prop::TopicAliasMaximum(number)),
        id::TOPIC_ALIAS => Some(Prop::TopicAlias(number)),
        _ => None,
    }
}

// The property of an identifier, whose values are of this type.
fn four_bytes_prop<'a>(id: u8, number: u32) -> Option<Prop<'a>>
    ensures view { IfSome result (λ prop. prop_view prop ≡ record { id = id; value = four_bytes_value number }) }
    ensures each { has_kind types.FourBytes id ≡ true → IsSome result }
{
    match id {
        id::MESSAGE_EXPIRY_INTERVAL => Some(Prop::MessageExpiryInterval(number)),
        id::SESSION_EXPIRY_INTERVAL => Some(Prop::SessionExpiryInterval(number)),
        id::WILL_DELAY_INTERVAL => Some(Prop::WillDelayInterval(number)),
        id::MAXIMUM_PACKET_SIZE => Some(Prop::MaximumPacketSize(number)),
        _ => None,
    }
}

// The property of an identifier, whose values are of this type.
fn text_prop<'a>(id: u8, string: &'a str) -> Option<Prop<'a>>
    ensures view { IfSome result (λ prop. prop_view prop ≡ record { id = id; value = text_value string.entry.now }) }
    ensures each { has_kind types.Text id ≡ true → IsSome result }
{
    match id {
        id::CONTENT_TYPE => Some(Prop::ContentType(string)),
        id::RESPONSE_TOPIC => Some(Prop::ResponseTopic(string)),
        id::ASSIGNED_CLIENT_IDENTIFIER => Some(Prop::AssignedClientIdentifier(string)),
        id::AUTHENTICATION_METHOD => Some(Prop::AuthenticationMethod(string)),
        id::RESPONSE_INFORMATION => Some(Prop::ResponseInformation(string)),
        id::SERVER_REFERENCE => Some(Prop::ServerReference(string)),
        id::REASON_STRING => Some(Prop::ReasonString(string)),
        _ => None,
    }
}

// The property of an identifier, whose values are of this type.
fn binary_prop<'a>(id: u8, bytes: &'a [u8]) -> Option<Prop<'a>>
    ensures view { IfSome result (λ prop. prop_view prop ≡ record { id = id; value = binary_value bytes.entry.now }) }
    ensures each { has_kind types.Binary id ≡ true → IsSome result }
{
    match id {
        id::CORRELATION_DATA => Some(Prop::CorrelationData(bytes)),
        id::AUTHENTICATION_DATA => Some(Prop::AuthenticationData(bytes)),
        _ => None,
    }
}

// The property of an identifier, whose values are of this type.
fn varint_prop<'a>(id: u8, number: u32) -> Option<Prop<'a>>
    ensures view { IfSome result (λ prop. prop_view prop ≡ record { id = id; value = varint_value number }) }
    ensures each { has_kind types.Varint id ≡ true → IsSome result }
{
    match id {
        id::SUBSCRIPTION_IDENTIFIER => Some(Prop::SubscriptionIdentifier(number)),
        _ => None,
    }
}

// The property of an identifier, whose values are of this type.
fn pair_prop<'a>(id: u8, name: &'a str, value: &'a str) -> Option<Prop<'a>>
    ensures view { IfSome result (λ prop. prop_view prop ≡ record { id = id; value = pair_value name.entry.now value.entry.now }) }
    ensures each { has_kind types.Pair id ≡ true → IsSome result }
{
    match id {
        id::USER_PROPERTY => Some(Prop::UserProperty(name, value)),
        _ => None,
    }
}

/// The property with this identifier and value, if the value is of the identifier's type.
pub fn prop_of<'a>(item: Item<'a>) -> Option<Prop<'a>>
    ensures view { IfSome result (λ prop. prop_view prop ≡ item_view item.entry) }
    ensures each { has_kind (value_type (item_view item.entry).value) (item_view item.entry).id ≡ true → IsSome result }
{
    match item.value {
        Value::Byte(number) => byte_prop(item.id, number),
        Value::TwoBytes(number) => two_bytes_prop(item.id, number),
        Value::FourBytes(number) => four_bytes_prop(item.id, number),
        Value::Varint(number) => varint_prop(item.id, number),
        Value::Text(text) => text_prop(item.id, text),
        Value::Pair(name, value) => pair_prop(item.id, name, value),
        Value::Binary(bytes) => binary_prop(item.id, bytes),
    }
}
