//! Properties as a list has them: an identifier, and a value of one of seven types.

ghost use Rattle.std.specs.Prelude.{◌≡◌};
ghost use Rattle.mq_wire.specs.Left.{placed, Took};
ghost use Rattle.mq_props.specs.Allowed.{in_range, number_in_range, is_wild, has_wildcard};
ghost use Rattle.mq_props.specs.Reading.{value_on};
ghost use Rattle.mq_props.specs.Views.{value_view};

use crate::table::{Place, Range, ValueType, id, is_publish};
use mq_topic::check_name;
use mq_wire::{Cursor, WireFault};

/// A property's value.
#[derive(Debug, Clone, Copy)]
pub enum Value<'a> {
    Byte(u8),
    TwoBytes(u16),
    FourBytes(u32),
    Varint(u32),
    Text(&'a str),
    Pair(&'a str, &'a str),
    Binary(&'a [u8]),
}

/// A property: its identifier and its value.
#[derive(Debug, Clone, Copy)]
pub struct Item<'a> {
    pub id: u8,
    pub value: Value<'a>,
}

/// Reads a value of the type.
pub fn read_value<'a>(kind: ValueType, cursor: &mut Cursor<'a>) -> Result<Value<'a>, WireFault>
    ensures { Took value_view result cursor.old (value_on kind cursor.old) cursor.new }
{
    match kind {
        ValueType::Byte => {
            let number = cursor.u8()?;
            Ok(Value::Byte(number))
        }
        ValueType::TwoBytes => {
            let number = cursor.u16()?;
            Ok(Value::TwoBytes(number))
        }
        ValueType::FourBytes => {
            let number = cursor.u32()?;
            Ok(Value::FourBytes(number))
        }
        ValueType::Varint => {
            let number = cursor.varint()?;
            Ok(Value::Varint(number))
        }
        ValueType::Text => {
            let text = cursor.text()?;
            Ok(Value::Text(text))
        }
        ValueType::Pair => {
            let (name, value) = cursor.pair()?;
            Ok(Value::Pair(name, value))
        }
        ValueType::Binary => {
            let bytes = cursor.binary()?;
            Ok(Value::Binary(bytes))
        }
    }
}

// Whether a number that the property's type allows is in its range too.
fn is_number_in_range(range: Range, number: u32) -> bool
    ensures { result ≡ number_in_range range number }
{
    match range {
        Range::Any => true,
        Range::NotZero => number != 0,
        Range::ZeroOrOne => number < 2,
    }
}

/// Whether the value is in the range. A range restricts numbers alone.
pub fn is_in_range(range: Range, value: &Value) -> bool
    ensures { result ≡ in_range range (value_view value.now) }
{
    match *value {
        Value::Byte(number) => is_number_in_range(range, u32::from(number)),
        Value::TwoBytes(number) => is_number_in_range(range, u32::from(number)),
        Value::FourBytes(number) => is_number_in_range(range, number),
        Value::Varint(number) => is_number_in_range(range, number),
        Value::Text(_) => true,
        Value::Pair(_, _) => true,
        Value::Binary(_) => true,
    }
}

// Whether the value is a UTF-8 Encoded String with a wildcard. A String Pair may have wildcards.
fn has_wildcard_in(value: &Value) -> bool
    ensures { result ≡ has_wildcard (value_view value.now) }
{
    match *value {
        Value::Text(text) => !check_name(text),
        Value::Byte(_) => false,
        Value::TwoBytes(_) => false,
        Value::FourBytes(_) => false,
        Value::Varint(_) => false,
        Value::Pair(_, _) => false,
        Value::Binary(_) => false,
    }
}

/// Whether the value is a Response Topic of a PUBLISH with a wildcard.
pub fn is_wild_in(place: Place, id: u8, value: &Value) -> bool
    ensures { result ≡ is_wild place id (value_view value.now) }
{
    is_publish(place) && id == id::RESPONSE_TOPIC && has_wildcard_in(value)
}
