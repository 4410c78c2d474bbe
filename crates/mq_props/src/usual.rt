//! The usual properties of a PUBLISH, read in a quick way.

ghost use Rattle.std.specs.Prelude.{◌≡◌, ◌<◌, ◌≢◌, List, IsTrue, IfSome, false};
ghost use Rattle.mq_wire.specs.Left.{past};
ghost use Rattle.mq_props.specs.declared.table.Place.TheVariants as places;
ghost use Rattle.mq_props.specs.Allowed.{is_repeated};
ghost use Rattle.mq_props.specs.Usual.{HasValue, Follows, ReadsMore};
ghost use Rattle.mq_props.specs.Identifiers.{payload_format_indicator, message_expiry_interval, content_type, response_topic, correlation_data, subscription_identifier, topic_alias, user_property};
ghost use Rattle.mq_props.specs.Values.{Property};
ghost use Rattle.mq_props.specs.Views.{Sees};

use crate::facts::Facts;
use crate::seen::Seen;
use crate::table::{Place, id, may_repeat_in};
use mq_wire::Cursor;

// Whether a Payload Format Indicator is next; the table allows each value.
#[inline(always)]
fn is_payload_format(cursor: &mut Cursor) -> bool
    ensures { IsTrue result → HasValue payload_format_indicator cursor.old cursor.new }
{
    cursor.u8().is_ok()
}

// Whether a Message Expiry Interval is next, which any four bytes can be (MQTT 5.0, 3.3.2.3.3).
#[inline(always)]
fn is_message_expiry(cursor: &mut Cursor) -> bool
    ensures { IsTrue result → HasValue message_expiry_interval cursor.old cursor.new }
{
    cursor.u32().is_ok()
}

// Whether a Content Type is next, and is plain (MQTT 5.0, 3.3.2.3.9).
#[inline(always)]
fn is_content_type(cursor: &mut Cursor) -> bool
    ensures { IsTrue result → HasValue content_type cursor.old cursor.new }
{
    cursor.plain_text().is_some()
}

// Whether a Response Topic is next, and is plain: it then has no wildcard (MQTT 5.0, 3.3.2.3.5).
#[inline(always)]
fn is_response_topic(cursor: &mut Cursor) -> bool
    ensures { IsTrue result → HasValue response_topic cursor.old cursor.new }
{
    cursor.plain_text().is_some()
}

// Whether Correlation Data is next, which any Binary Data can be (MQTT 5.0, 3.3.2.3.6).
#[inline(always)]
fn is_correlation_data(cursor: &mut Cursor) -> bool
    ensures { IsTrue result → HasValue correlation_data cursor.old cursor.new }
{
    cursor.binary().is_ok()
}

// Whether a Subscription Identifier of one byte is next, which is from 1 to 127 (MQTT 5.0,
// 3.3.2.3.8).
#[inline(always)]
fn is_subscription_identifier(cursor: &mut Cursor) -> bool
    ensures { IsTrue result → HasValue subscription_identifier cursor.old cursor.new }
{
    matches!(cursor.u8(), Ok(1..128))
}

// Whether a User Property is next, and its name and value are plain (MQTT 5.0, 3.3.2.3.7).
#[inline(always)]
fn is_user_property(cursor: &mut Cursor) -> bool
    ensures { IsTrue result → HasValue user_property cursor.old cursor.new }
{
    cursor.plain_text().is_some() && cursor.plain_text().is_some()
}

// Whether a value that the property may have in a PUBLISH is at the front of what is left, with
// plain texts and numbers of one byte alone. The cursor is then past it, else anywhere. Topic Alias
// isn't among them.
#[inline(always)]
fn has_value(id: u8, cursor: &mut Cursor) -> bool
    ensures value { IsTrue result → HasValue id cursor.old cursor.new }
    ensures other { IsTrue result → id ≢ topic_alias }
{
    match id {
        id::PAYLOAD_FORMAT_INDICATOR => is_payload_format(cursor),
        id::MESSAGE_EXPIRY_INTERVAL => is_message_expiry(cursor),
        id::CONTENT_TYPE => is_content_type(cursor),
        id::RESPONSE_TOPIC => is_response_topic(cursor),
        id::CORRELATION_DATA => is_correlation_data(cursor),
        id::SUBSCRIPTION_IDENTIFIER => is_subscription_identifier(cursor),
        id::USER_PROPERTY => is_user_property(cursor),
        _ => false,
    }
}

// Whether the property may not be in a PUBLISH after those that have been seen.
#[inline(always)]
fn is_repeated(seen: Seen, id: u8) -> bool
    requires { id < 43 }
    ensures { (before : List Property) → Sees seen before → result ≡ is_repeated places.Publish before id }
{
    seen.has(id) && !may_repeat_in(Place::Publish, id)
}

// A Topic Alias whose value is at the front of what is left.
#[inline(always)]
fn topic_alias_after(facts: Facts, cursor: &mut Cursor) -> Option<Facts>
    ensures { IfSome result (λ later. Follows facts topic_alias cursor.old later cursor.new) }
{
    let Ok(number) = cursor.u16() else {
        return None;
    };
    if number == 0 {
        return None;
    }
    if facts.seen.has(id::TOPIC_ALIAS) {
        return None;
    }
    Some(facts.with_topic_alias(number))
}

// Another property, whose value is at the front of what is left.
#[inline(always)]
fn other_after(facts: Facts, id: u8, cursor: &mut Cursor) -> Option<Facts>
    ensures { IfSome result (λ later. Follows facts id cursor.old later cursor.new) }
{
    if !has_value(id, cursor) {
        return None;
    }
    if is_repeated(facts.seen, id) {
        return None;
    }
    Some(facts.with_other(id))
}

/// The facts with the property of a PUBLISH at the front of what is left, if it's one of the eight
/// that a PUBLISH may have, valid after properties with these facts, its texts plain, and a
/// Subscription Identifier below 128. The cursor is then past it, else anywhere.
#[inline(always)]
pub fn usual_after(facts: Facts, cursor: &mut Cursor) -> Option<Facts>
    ensures { IfSome result (λ later. ReadsMore places.Publish facts cursor.old later cursor.new) }
{
    let Ok(id) = cursor.u8() else {
        return None;
    };
    if id == id::TOPIC_ALIAS {
        topic_alias_after(facts, cursor)
    } else {
        other_after(facts, id, cursor)
    }
}
