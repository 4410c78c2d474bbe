//! Reading a property list.

ghost use Rattle.std.specs.Prelude.{◌≡◌, ◌+◌, ◌<◌, ◌^◌, List, [], length, Ok, Err, MatchResult, IfOk, IfSome};
ghost use Rattle.mq_wire.specs.Left.{Gives};
ghost use Rattle.mq_props.specs.Table.{row_of, row_view};
ghost use Rattle.mq_props.specs.Values.{Property};
ghost use Rattle.mq_props.specs.Reading.{judged_at, admitted, valued, property_on, properties_on, ReadsFront};
ghost use Rattle.mq_props.specs.Usual.{ReadsMore, RefusesMore};
ghost use Rattle.mq_props.specs.Views.{Sees, Knows, value_view, item_view};

use crate::facts::Facts;
use crate::fault::{PropFault, PropReason};
use crate::seen::Seen;
use crate::table::{Place, Row, find_row, is_publish, lists_place, may_repeat_in};
use crate::usual::usual_after;
use crate::value::{Item, Value, is_in_range, is_wild_in, read_value};
use mq_wire::Cursor;

// The line of the identifier at an offset, if a property with it is allowed in the list after those
// seen.
fn admit(place: Place, seen: Seen, at: usize, id: u32) -> Result<Row, PropFault>
    ensures exact { (before : List Property) → Sees seen before → Gives row_view result (judged_at at (admitted place before (row_of id))) }
    ensures bound { IfOk result (λ row. row.0 < 43) }
{
    let Some(row) = find_row(id) else {
        return Err(PropFault {
            at,
            reason: PropReason::Unknown,
        });
    };
    let (identifier, _, _, places) = row;
    if !lists_place(places, place) {
        return Err(PropFault {
            at,
            reason: PropReason::NotAllowed,
        });
    }
    if seen.has(identifier) && !may_repeat_in(place, identifier) {
        return Err(PropFault {
            at,
            reason: PropReason::Repeated,
        });
    }
    Ok(row)
}

// The property of a line with the value at an offset, if it may have the value in this list.
fn judge<'a>(place: Place, row: Row, at: usize, value: Value<'a>) -> Result<Item<'a>, PropFault>
    ensures exact { Gives item_view result (judged_at at (valued place (row_view row.entry) (value_view value.entry))) }
    ensures same { IfOk result (λ item. item.id ≡ row.entry.0) }
{
    let (identifier, _, range, _) = row;
    if !is_in_range(range, &value) {
        return Err(PropFault {
            at,
            reason: PropReason::Value,
        });
    }
    if is_wild_in(place, identifier, &value) {
        return Err(PropFault {
            at,
            reason: PropReason::Wildcard,
        });
    }
    Ok(Item {
        id: identifier,
        value,
    })
}

// A property at the front of what is left, after those seen.
#[tactic(auto, unfolding(crate::specs::Reading::property_on))]
fn read_item<'a>(place: Place, seen: Seen, cursor: &mut Cursor<'a>) -> Result<Item<'a>, PropFault>
    ensures exact { (before : List Property) → Sees seen before → ReadsFront item_view result (property_on place before cursor.old) cursor.new }
    ensures bound { IfOk result (λ item. item.id < 43) }
{
    let start = cursor.at();
    let id = cursor.varint()?;
    let row = admit(place, seen, start, id)?;
    let value_at = cursor.at();
    let (_, value_type, _, _) = row;
    let value = read_value(value_type, cursor)?;
    let item = judge(place, row, value_at, value)?;
    Ok(item)
}

// The property at the front of what is left, whichever it is, after those with these facts: the
// facts with it, and what is left after it. It takes and answers values, so that its caller's need
// no place in memory.
#[inline(never)]
fn any_after<'a>(
    place: Place,
    facts: Facts,
    mut cursor: Cursor<'a>,
) -> Result<(Facts, Cursor<'a>), PropFault>
    ensures { MatchResult result (λ next. ReadsMore place facts cursor.entry next.0 next.1) (λ fault. RefusesMore place facts cursor.entry fault) }
{
    let item = read_item(place, facts.seen, &mut cursor)?;
    Ok((facts.with_item(&item), cursor))
}

// The usual property of a PUBLISH at the front of these bytes, if there is one.
#[inline(always)]
fn quick_after<'a>(
    place: Place,
    facts: Facts,
    at: usize,
    bytes: &'a [u8],
) -> Option<(Facts, Cursor<'a>)>
    requires { at + length bytes.now < 2 ^ 63 }
    ensures { IfSome result (λ next. ReadsMore place facts (record { at = at; rest = bytes.entry.now }) next.0 next.1) }
{
    if !is_publish(place) {
        return None;
    }
    let mut cursor = Cursor::starting_at(bytes, at);
    let later = usual_after(facts, &mut cursor)?;
    Some((later, cursor))
}

// The property at the front of these bytes, after those with these facts: the facts with it, and
// what is left after it.
#[inline(always)]
fn read_more<'a>(
    place: Place,
    facts: Facts,
    at: usize,
    bytes: &'a [u8],
) -> Result<(Facts, Cursor<'a>), PropFault>
    requires { at + length bytes.now < 2 ^ 63 }
    ensures { MatchResult result
        (λ next. ReadsMore place facts (record { at = at; rest = bytes.entry.now }) next.0 next.1)
        (λ fault. RefusesMore place facts (record { at = at; rest = bytes.entry.now }) fault) }
{
    match quick_after(place, facts, at, bytes) {
        Some(next) => Ok(next),
        None => any_after(place, facts, Cursor::starting_at(bytes, at)),
    }
}

/// What is known of the list of properties that the bytes are, if it's valid for the place (MQTT
/// 5.0, 2.2.2). The first byte has the offset `at`.
///
/// # Errors
///
/// The first invalid field from the left, with its offset, as in `Props::read`.
pub(crate) fn facts_of(place: Place, at: usize, bytes: &[u8]) -> Result<Facts, PropFault>
    requires { at + length bytes.now < 2 ^ 63 }
    ensures { MatchResult result
        (λ facts. (ps : List Property) × (properties_on place [] (record { at = at; rest = bytes.now }) ≡ Ok ps) × Knows facts ps)
        (λ fault. properties_on place [] (record { at = at; rest = bytes.now }) ≡ Err fault) }
{
    let mut facts = Facts::new();
    let mut rest = bytes;
    let mut start = at;
    while !rest.is_empty() {
        let (later, cursor) = read_more(place, facts, start, rest)?;
        facts = later;
        start = cursor.at();
        rest = cursor.rest();
    }
    Ok(facts)
}
