//! The first property of each kind in a list.
//!
//! The getters that are called for each PUBLISH are inlined down to a function of the list's bytes:
//! a list that no call borrows is kept in registers.

ghost use Rattle.std.specs.Prelude.{◌≡◌, ◌<◌, is_some};
ghost use Rattle.std.specs.Option.{option_map};
ghost use Rattle.mq_props.specs.First.{as_byte, as_two_bytes, as_four_bytes, as_varint, as_text, as_pair, as_binary, first_byte, first_two_bytes, first_four_bytes, first_varint, first_text, first_pair, first_binary};
ghost use Rattle.mq_props.specs.Identifiers.{payload_format_indicator, message_expiry_interval, content_type, response_topic, correlation_data, subscription_identifier, session_expiry_interval, assigned_client_identifier, server_keep_alive, authentication_method, authentication_data, request_problem_information, will_delay_interval, request_response_information, response_information, server_reference, reason_string, receive_maximum, topic_alias_maximum, topic_alias, maximum_qos, retain_available, user_property, maximum_packet_size, wildcard_subscription_available, subscription_identifier_available, shared_subscription_available};
ghost use Rattle.mq_props.specs.Reading.{items_of};
ghost use Rattle.mq_props.specs.Views.{value_view};

use crate::props::{Props, first_in};
use crate::table::id::{
    ASSIGNED_CLIENT_IDENTIFIER, AUTHENTICATION_DATA, AUTHENTICATION_METHOD, CONTENT_TYPE,
    CORRELATION_DATA, MAXIMUM_PACKET_SIZE, MAXIMUM_QOS, MESSAGE_EXPIRY_INTERVAL,
    PAYLOAD_FORMAT_INDICATOR, REASON_STRING, RECEIVE_MAXIMUM, REQUEST_PROBLEM_INFORMATION,
    REQUEST_RESPONSE_INFORMATION, RESPONSE_INFORMATION, RESPONSE_TOPIC, RETAIN_AVAILABLE,
    SERVER_KEEP_ALIVE, SERVER_REFERENCE, SESSION_EXPIRY_INTERVAL, SHARED_SUBSCRIPTION_AVAILABLE,
    SUBSCRIPTION_IDENTIFIER, SUBSCRIPTION_IDENTIFIER_AVAILABLE, TOPIC_ALIAS, TOPIC_ALIAS_MAXIMUM,
    USER_PROPERTY, WILDCARD_SUBSCRIPTION_AVAILABLE, WILL_DELAY_INTERVAL,
};
use crate::value::Value;

impl<'a> Value<'a> {
    // The number, if the value is a Byte.
    fn byte(self) -> Option<u8>
        ensures { result ≡ as_byte (value_view self.entry) }
    {
        match self {
            Value::Byte(value) => Some(value),
            _ => None,
        }
    }

    // The number, if the value is a Two Byte Integer.
    pub(crate) fn two_bytes(self) -> Option<u16>
        ensures { result ≡ as_two_bytes (value_view self.entry) }
    {
        match self {
            Value::TwoBytes(value) => Some(value),
            _ => None,
        }
    }

    // The number, if the value is a Four Byte Integer.
    fn four_bytes(self) -> Option<u32>
        ensures { result ≡ as_four_bytes (value_view self.entry) }
    {
        match self {
            Value::FourBytes(value) => Some(value),
            _ => None,
        }
    }

    // The number, if the value is a Variable Byte Integer.
    fn varint(self) -> Option<u32>
        ensures { result ≡ as_varint (value_view self.entry) }
    {
        match self {
            Value::Varint(value) => Some(value),
            _ => None,
        }
    }

    // The text, if the value is a UTF-8 Encoded String.
    fn text(self) -> Option<&'a str>
        ensures { option_map (λ text. text.now) result ≡ as_text (value_view self.entry) }
    {
        match self {
            Value::Text(value) => Some(value),
            _ => None,
        }
    }

    // The name and the value of the pair, if the value is a UTF-8 String Pair.
    fn pair(self) -> Option<(&'a str, &'a str)>
        ensures { option_map (λ texts. (texts.0.now, texts.1.now)) result ≡ as_pair (value_view self.entry) }
    {
        match self {
            Value::Pair(name, value) => Some((name, value)),
            _ => None,
        }
    }

    // The bytes, if the value is Binary Data.
    fn binary(self) -> Option<&'a [u8]>
        ensures { option_map (λ bytes. bytes.now) result ≡ as_binary (value_view self.entry) }
    {
        match self {
            Value::Binary(value) => Some(value),
            _ => None,
        }
    }
}

// ---- the first property with the identifier among those that the bytes spell

// Its number, if it is a Two Byte Integer.
#[inline(never)]
fn two_bytes_in<'a>(bytes: &'a [u8], id: u8) -> Option<u16>
    ensures { result ≡ first_two_bytes id (items_of bytes.entry.now) }
{
    first_in(bytes, id)?.two_bytes()
}

// Its number, if it is a Four Byte Integer.
#[inline(never)]
fn four_bytes_in<'a>(bytes: &'a [u8], id: u8) -> Option<u32>
    ensures { result ≡ first_four_bytes id (items_of bytes.entry.now) }
{
    first_in(bytes, id)?.four_bytes()
}

// Its number, if it is a Variable Byte Integer.
#[inline(never)]
fn varint_in<'a>(bytes: &'a [u8], id: u8) -> Option<u32>
    ensures { result ≡ first_varint id (items_of bytes.entry.now) }
{
    first_in(bytes, id)?.varint()
}

// Its text, if it is a UTF-8 Encoded String.
#[inline(never)]
fn text_in<'a>(bytes: &'a [u8], id: u8) -> Option<&'a str>
    ensures { option_map (λ text. text.now) result ≡ first_text id (items_of bytes.entry.now) }
{
    first_in(bytes, id)?.text()
}

// Its name and its value, if it is a UTF-8 String Pair.
#[inline(never)]
fn pair_in<'a>(bytes: &'a [u8], id: u8) -> Option<(&'a str, &'a str)>
    ensures { option_map (λ texts. (texts.0.now, texts.1.now)) result ≡ first_pair id (items_of bytes.entry.now) }
{
    first_in(bytes, id)?.pair()
}

impl<'a> Props<'a> {
    // The value of the first property with the identifier, if it is a Byte. The list isn't read
    // if it has no such property.
    fn first_byte(&self, id: u8) -> Option<u8>
        requires { id < 43 }
        ensures { result ≡ first_byte id self.now.items }
    {
        if !self.has(id) {
            return None;
        }
        self.first(id)?.byte()
    }

    // The value of the first property with the identifier, if it is a Two Byte Integer.
    #[inline(always)]
    fn first_two_bytes(&self, id: u8) -> Option<u16>
        requires { id < 43 }
        ensures { result ≡ first_two_bytes id self.now.items }
    {
        if !self.has(id) {
            return None;
        }
        two_bytes_in(self.bytes, id)
    }

    // The value of the first property with the identifier, if it is a Four Byte Integer.
    #[inline(always)]
    fn first_four_bytes(&self, id: u8) -> Option<u32>
        requires { id < 43 }
        ensures { result ≡ first_four_bytes id self.now.items }
    {
        if !self.has(id) {
            return None;
        }
        four_bytes_in(self.bytes, id)
    }

    // The value of the first property with the identifier, if it is a Variable Byte Integer.
    #[inline(always)]
    fn first_varint(&self, id: u8) -> Option<u32>
        requires { id < 43 }
        ensures { result ≡ first_varint id self.now.items }
    {
        if !self.has(id) {
            return None;
        }
        varint_in(self.bytes, id)
    }

    // The value of the first property with the identifier, if it is a UTF-8 Encoded String.
    #[inline(always)]
    fn first_text(&self, id: u8) -> Option<&'a str>
        requires { id < 43 }
        ensures { option_map (λ text. text.now) result ≡ first_text id self.now.items }
    {
        if !self.has(id) {
            return None;
        }
        text_in(self.bytes, id)
    }

    // The value of the first property with the identifier, if it is a UTF-8 String Pair.
    #[inline(always)]
    fn first_pair(&self, id: u8) -> Option<(&'a str, &'a str)>
        requires { id < 43 }
        ensures { option_map (λ texts. (texts.0.now, texts.1.now)) result ≡ first_pair id self.now.items }
    {
        if !self.has(id) {
            return None;
        }
        pair_in(self.bytes, id)
    }

    // The value of the first property with the identifier, if it is Binary Data.
    fn first_binary(&self, id: u8) -> Option<&'a [u8]>
        requires { id < 43 }
        ensures { option_map (λ bytes. bytes.now) result ≡ first_binary id self.now.items }
    {
        if !self.has(id) {
            return None;
        }
        self.first(id)?.binary()
    }

    /// The first Payload Format Indicator.
    pub fn get_payload_format_indicator(&self) -> Option<u8>
        ensures { result ≡ first_byte payload_format_indicator self.now.items }
    {
        self.first_byte(PAYLOAD_FORMAT_INDICATOR)
    }

    /// The first Message Expiry Interval.
    #[inline(always)]
    pub fn get_message_expiry_interval(&self) -> Option<u32>
        ensures { result ≡ first_four_bytes message_expiry_interval self.now.items }
    {
        self.first_four_bytes(MESSAGE_EXPIRY_INTERVAL)
    }

    /// Whether there is a Message Expiry Interval.
    #[inline(always)]
    pub fn has_message_expiry_interval(&self) -> bool
        ensures { result ≡ is_some (first_four_bytes message_expiry_interval self.now.items) }
    {
        self.has(MESSAGE_EXPIRY_INTERVAL)
    }

    /// The first Content Type.
    pub fn get_content_type(&self) -> Option<&'a str>
        ensures { option_map (λ text. text.now) result ≡ first_text content_type self.now.items }
    {
        self.first_text(CONTENT_TYPE)
    }

    /// The first Response Topic.
    pub fn get_response_topic(&self) -> Option<&'a str>
        ensures { option_map (λ text. text.now) result ≡ first_text response_topic self.now.items }
    {
        self.first_text(RESPONSE_TOPIC)
    }

    /// The first Correlation Data.
    pub fn get_correlation_data(&self) -> Option<&'a [u8]>
        ensures { option_map (λ bytes. bytes.now) result ≡ first_binary correlation_data self.now.items }
    {
        self.first_binary(CORRELATION_DATA)
    }

    /// The first Subscription Identifier.
    #[inline(always)]
    pub fn get_subscription_identifier(&self) -> Option<u32>
        ensures { result ≡ first_varint subscription_identifier self.now.items }
    {
        self.first_varint(SUBSCRIPTION_IDENTIFIER)
    }

    /// Whether there is a Subscription Identifier.
    #[inline(always)]
    pub fn has_subscription_identifier(&self) -> bool
        ensures { result ≡ is_some (first_varint subscription_identifier self.now.items) }
    {
        self.has(SUBSCRIPTION_IDENTIFIER)
    }

    /// The first Session Expiry Interval.
    pub fn get_session_expiry_interval(&self) -> Option<u32>
        ensures { result ≡ first_four_bytes session_expiry_interval self.now.items }
    {
        self.first_four_bytes(SESSION_EXPIRY_INTERVAL)
    }

    /// The first Assigned Client Identifier.
    pub fn get_assigned_client_identifier(&self) -> Option<&'a str>
        ensures { option_map (λ text. text.now) result ≡ first_text assigned_client_identifier self.now.items }
    {
        self.first_text(ASSIGNED_CLIENT_IDENTIFIER)
    }

    /// The first Server Keep Alive.
    pub fn get_server_keep_alive(&self) -> Option<u16>
        ensures { result ≡ first_two_bytes server_keep_alive self.now.items }
    {
        self.first_two_bytes(SERVER_KEEP_ALIVE)
    }

    /// The first Authentication Method.
    pub fn get_authentication_method(&self) -> Option<&'a str>
        ensures { option_map (λ text. text.now) result ≡ first_text authentication_method self.now.items }
    {
        self.first_text(AUTHENTICATION_METHOD)
    }

    /// The first Authentication Data.
    pub fn get_authentication_data(&self) -> Option<&'a [u8]>
        ensures { option_map (λ bytes. bytes.now) result ≡ first_binary authentication_data self.now.items }
    {
        self.first_binary(AUTHENTICATION_DATA)
    }

    /// The first Request Problem Information.
    pub fn get_request_problem_information(&self) -> Option<u8>
        ensures { result ≡ first_byte request_problem_information self.now.items }
    {
        self.first_byte(REQUEST_PROBLEM_INFORMATION)
    }

    /// The first Will Delay Interval.
    pub fn get_will_delay_interval(&self) -> Option<u32>
        ensures { result ≡ first_four_bytes will_delay_interval self.now.items }
    {
        self.first_four_bytes(WILL_DELAY_INTERVAL)
    }

    /// The first Request Response Information.
    pub fn get_request_response_information(&self) -> Option<u8>
        ensures { result ≡ first_byte request_response_information self.now.items }
    {
        self.first_byte(REQUEST_RESPONSE_INFORMATION)
    }

    /// The first Response Information.
    pub fn get_response_information(&self) -> Option<&'a str>
        ensures { option_map (λ text. text.now) result ≡ first_text response_information self.now.items }
    {
        self.first_text(RESPONSE_INFORMATION)
    }

    /// The first Server Reference.
    pub fn get_server_reference(&self) -> Option<&'a str>
        ensures { option_map (λ text. text.now) result ≡ first_text server_reference self.now.items }
    {
        self.first_text(SERVER_REFERENCE)
    }

    /// The first Reason String.
    #[inline(always)]
    pub fn get_reason_string(&self) -> Option<&'a str>
        ensures { option_map (λ text. text.now) result ≡ first_text reason_string self.now.items }
    {
        self.first_text(REASON_STRING)
    }

    /// Whether there is a Reason String.
    #[inline(always)]
    pub fn has_reason_string(&self) -> bool
        ensures { result ≡ is_some (first_text reason_string self.now.items) }
    {
        self.has(REASON_STRING)
    }

    /// The first Receive Maximum.
    pub fn get_receive_maximum(&self) -> Option<u16>
        ensures { result ≡ first_two_bytes receive_maximum self.now.items }
    {
        self.first_two_bytes(RECEIVE_MAXIMUM)
    }

    /// The first Topic Alias Maximum.
    pub fn get_topic_alias_maximum(&self) -> Option<u16>
        ensures { result ≡ first_two_bytes topic_alias_maximum self.now.items }
    {
        self.first_two_bytes(TOPIC_ALIAS_MAXIMUM)
    }

    /// The first Topic Alias.
    #[inline(always)]
    pub fn get_topic_alias(&self) -> Option<u16>
        ensures { result ≡ first_two_bytes topic_alias self.now.items }
    {
        self.topic_alias
    }

    /// The first Maximum QoS.
    pub fn get_maximum_qos(&self) -> Option<u8>
        ensures { result ≡ first_byte maximum_qos self.now.items }
    {
        self.first_byte(MAXIMUM_QOS)
    }

    /// The first Retain Available.
    pub fn get_retain_available(&self) -> Option<u8>
        ensures { result ≡ first_byte retain_available self.now.items }
    {
        self.first_byte(RETAIN_AVAILABLE)
    }

    /// The first User Property.
    #[inline(always)]
    pub fn get_user_property(&self) -> Option<(&'a str, &'a str)>
        ensures { option_map (λ texts. (texts.0.now, texts.1.now)) result ≡ first_pair user_property self.now.items }
    {
        self.first_pair(USER_PROPERTY)
    }

    /// Whether there is a User Property.
    #[inline(always)]
    pub fn has_user_property(&self) -> bool
        ensures { result ≡ is_some (first_pair user_property self.now.items) }
    {
        self.has(USER_PROPERTY)
    }

    /// The first Maximum Packet Size.
    pub fn get_maximum_packet_size(&self) -> Option<u32>
        ensures { result ≡ first_four_bytes maximum_packet_size self.now.items }
    {
        self.first_four_bytes(MAXIMUM_PACKET_SIZE)
    }

    /// The first Wildcard Subscription Available.
    pub fn get_wildcard_subscription_available(&self) -> Option<u8>
        ensures { result ≡ first_byte wildcard_subscription_available self.now.items }
    {
        self.first_byte(WILDCARD_SUBSCRIPTION_AVAILABLE)
    }

    /// The first Subscription Identifier Available.
    pub fn get_subscription_identifier_available(&self) -> Option<u8>
        ensures { result ≡ first_byte subscription_identifier_available self.now.items }
    {
        self.first_byte(SUBSCRIPTION_IDENTIFIER_AVAILABLE)
    }

    /// The first Shared Subscription Available.
    pub fn get_shared_subscription_available(&self) -> Option<u8>
        ensures { result ≡ first_byte shared_subscription_available self.now.items }
    {
        self.first_byte(SHARED_SUBSCRIPTION_AVAILABLE)
    }
}
