//! What a list has, by the lines of its properties in the table (MQTT 5.0, 2.2.2.2).

ghost use Rattle.std.specs.Prelude.{◌≡◌, ◌==◌, true};
ghost use Rattle.mq_props.specs.Having as having;
ghost use Rattle.mq_props.specs.Having.{any_property};
ghost use Rattle.mq_props.specs.Identifiers.{response_topic};
ghost use Rattle.mq_props.specs.Reading.{items_of};

use crate::props::{Props, next_item};
use crate::table::{Place, id, may_repeat_in};
use mq_wire::Cursor;

// Whether some property that the bytes spell may be in the place's list only once.
fn is_any_single(place: Place, bytes: &[u8]) -> bool
    ensures { result ≡ any_property (having.is_single place) (items_of bytes.now) }
{
    let mut cursor = Cursor::new(bytes);
    while let Some(item) = next_item(&mut cursor) {
        if !may_repeat_in(place, item.id) {
            return true;
        }
    }
    false
}

impl Props<'_> {
    /// Whether the list has a property.
    pub fn has_any(&self) -> bool
        ensures { result ≡ any_property (λ id. true) self.now.items }
    {
        self.iter().next().is_some()
    }

    /// Whether the list has a Response Topic (MQTT 5.0, 3.3.2.3.5).
    pub fn has_response_topic(&self) -> bool
        ensures { result ≡ any_property (λ id. id == response_topic) self.now.items }
    {
        self.has(id::RESPONSE_TOPIC)
    }

    /// Whether the list has a property with a text, which is a UTF-8 string or a pair of them. It
    /// reads no property again.
    pub fn has_text(&self) -> bool
        ensures { result ≡ any_property having.has_text self.now.items }
    {
        self.has(id::CONTENT_TYPE)
            | self.has(id::RESPONSE_TOPIC)
            | self.has(id::ASSIGNED_CLIENT_IDENTIFIER)
            | self.has(id::AUTHENTICATION_METHOD)
            | self.has(id::RESPONSE_INFORMATION)
            | self.has(id::SERVER_REFERENCE)
            | self.has(id::REASON_STRING)
            | self.has(id::USER_PROPERTY)
    }

    /// Whether the list has a property that may not have each value of its type. It reads no
    /// property again.
    pub fn has_range(&self) -> bool
        ensures { result ≡ any_property having.has_range self.now.items }
    {
        self.has(id::SUBSCRIPTION_IDENTIFIER)
            | self.has(id::REQUEST_PROBLEM_INFORMATION)
            | self.has(id::REQUEST_RESPONSE_INFORMATION)
            | self.has(id::RECEIVE_MAXIMUM)
            | self.has(id::TOPIC_ALIAS)
            | self.has(id::MAXIMUM_QOS)
            | self.has(id::RETAIN_AVAILABLE)
            | self.has(id::MAXIMUM_PACKET_SIZE)
            | self.has(id::WILDCARD_SUBSCRIPTION_AVAILABLE)
            | self.has(id::SUBSCRIPTION_IDENTIFIER_AVAILABLE)
            | self.has(id::SHARED_SUBSCRIPTION_AVAILABLE)
    }

    /// Whether the list has a property that may be there only once.
    pub fn has_single(&self) -> bool
        ensures { result ≡ any_property (having.is_single self.now.place) self.now.items }
    {
        is_any_single(self.place(), self.bytes)
    }
}
