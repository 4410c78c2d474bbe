//! A validated property list.

ghost use Rattle.std.specs.Prelude.{◌≡◌, ℕ, ◌+◌, ◌≤◌, ◌<◌, ◌^◌, false, List, [], ◌∷◌, ◌++◌, length, IfOk, IfErr, IfSome, is_some, OnErr, IsOkAnd, MatchResult, MatchOption};
ghost use Rattle.std.specs.Option.{option_map};
ghost use Rattle.std.specs.Iterator.{YieldsFirstBy, item_count};
ghost use Rattle.mq_wire.specs.Left.{past};
ghost use Rattle.mq_wire.specs.Spellings.{AreBytes, max_varint};
ghost use Rattle.mq_props.specs.Values.{Property, body};
ghost use Rattle.mq_props.specs.Allowed.{first_of, occurs_in, AreAllowed, Lists};
ghost use Rattle.mq_props.specs.Breaks.{BreaksList};
ghost use Rattle.mq_props.specs.Empty.{begins_with_zero};
ghost use Rattle.mq_props.specs.Reading.{properties_on, list_on, item_on, items_on, items_of, ReadsFront};
ghost use Rattle.mq_props.specs.Views.{item_view, value_view};
ghost use Rattle.mq_props.specs.Props.{prop_view};

use crate::facts::Facts;
use crate::fault::{PropFault, PropReason};
use crate::list::facts_of;
use crate::prop::{Prop, prop_of};
use crate::seen::Seen;
use crate::table::{Place, find_row};
use crate::value::{Item, Value, read_value};
use mq_wire::{Cursor, Reason};
use std::marker::Model;
use std::mem;

/// A property list that is valid in its place (MQTT 5.0, 2.2.2): each property is known, allowed
/// there and in range, and none is repeated that may be there only once.
///
/// It borrows the bytes that spell it. A contract sees its place and its properties, in order.
#[derive(Debug, Drop)]
pub struct Props<'a> {
    pub(crate) bytes: &'a [u8],
    pub(crate) seen: Seen,
    pub(crate) topic_alias: Option<u16>,
    place: Place,
}

impl<'a> Model for Props<'a> {
    ghost use Rattle.mq_props.specs.Listed.{Listed};
    ghost use Rattle.mq_props.specs.Making.{HoldsList};
    ghost use Rattle.mq_props.specs.Reading.{items_of};

    ghost Value = { Listed };

    ghost view = { λ p. record { place = p.place; items = items_of p.bytes.now } };

    ghost invariant = { λ p. HoldsList p.place (record { seen = p.seen; topic_alias = p.topic_alias }) p.bytes.now };
}

// The bytes that the cursor has left. It doesn't move.
#[inline(always)]
fn rest_of<'a>(cursor: &mut Cursor<'a>) -> &'a [u8]
    ensures rest { result.now ≡ cursor.old.rest }
    ensures same { cursor.new ≡ cursor.old }
    ensures bytes { AreBytes cursor.old.rest }
{
    let at = cursor.at();
    let rest = mem::replace(cursor, Cursor::new(&[])).rest();
    *cursor = Cursor::starting_at(rest, at);
    rest
}

// The properties that all of the bytes spell; the first byte has the offset `at`.
fn all_of<'a>(place: Place, at: usize, bytes: &'a [u8]) -> Result<Props<'a>, PropFault>
    requires place { at + length bytes.now < 2 ^ 63 }
    requires bound { length bytes.now ≤ max_varint }
    ensures exact { MatchResult result
        (λ props. properties_on place [] (record { at = at; rest = bytes.entry.now }) ≡ Ok props.items)
        (λ fault. properties_on place [] (record { at = at; rest = bytes.entry.now }) ≡ Err fault) }
    ensures place { IfOk result (λ props. props.place ≡ place) }
{
    let facts = facts_of(place, at, bytes)?;
    Ok(Props::of(place, facts, bytes))
}

/// The bytes after an empty property list, which is the byte 0, if they begin with one (MQTT 5.0,
/// 2.2.2.1).
#[inline(always)]
pub fn after_empty_list(bytes: &[u8]) -> Option<&[u8]>
    ensures rest { IfSome result (λ rest. bytes.now ≡ 0 ∷ rest.now) }
    ensures begins { is_some result ≡ begins_with_zero bytes.now }
{
    match bytes {
        [0, rest @ ..] => Some(rest),
        _ => None,
    }
}

// The property list at the front of what is left. Most have no property.
#[inline(always)]
fn list_at<'a>(cursor: &mut Cursor<'a>, place: Place) -> Result<Props<'a>, PropFault>
    ensures exact { ReadsFront (λ props. props.items) result (list_on place cursor.old) cursor.new }
    ensures place { IfOk result (λ props. props.place ≡ place) }
    ensures err { OnErr result (cursor.new ≡ cursor.old) }
    ensures bytes { AreBytes cursor.old.rest }
{
    let at = cursor.at();
    match after_empty_list(rest_of(cursor)) {
        Some(rest) => {
            *cursor = Cursor::starting_at(rest, at + 1);
            Ok(Props::empty(place))
        }
        None => any_list_at(cursor, place),
    }
}

// The same for any list. It is a function of its own, so that the call for an empty list, the usual
// case, is inlined.
#[inline(never)]
#[tactic(auto, unfolding(crate::specs::Reading::list_on))]
fn any_list_at<'a>(cursor: &mut Cursor<'a>, place: Place) -> Result<Props<'a>, PropFault>
    ensures exact { ReadsFront (λ props. props.items) result (list_on place cursor.old) cursor.new }
    ensures place { IfOk result (λ props. props.place ≡ place) }
    ensures err { OnErr result (cursor.new ≡ cursor.old) }
    ensures bytes { AreBytes cursor.old.rest }
{
    let start = cursor.at();
    let mut ahead = Cursor::starting_at(rest_of(cursor), start);
    let len = ahead.varint()? as usize;
    let inside = ahead.at();
    let rest = ahead.rest();
    if rest.len() < len {
        return Err(PropFault {
            at: start,
            reason: PropReason::Wire(Reason::Short),
        });
    }
    let props = all_of(place, inside, &rest[..len])?;
    *cursor = Cursor::starting_at(&rest[len..], inside + len);
    Ok(props)
}

// The next property of any list, if there is one at the front of what is left.
#[tactic(auto, unfolding(crate::specs::Reading::item_on))]
pub(crate) fn next_item<'a>(cursor: &mut Cursor<'a>) -> Option<Item<'a>>
    ensures { MatchOption result (item_on cursor.old ≡ None) (λ item. item_on cursor.old ≡ Some (item_view item, cursor.new)) }
{
    let Ok(id) = cursor.varint() else {
        return None;
    };
    let Some((identifier, value_type, _, _)) = find_row(id) else {
        return None;
    };
    let Ok(value) = read_value(value_type, cursor) else {
        return None;
    };
    Some(Item {
        id: identifier,
        value,
    })
}

/// The value of the first property with the identifier among those that the bytes spell.
#[inline(never)]
pub(crate) fn first_in<'a>(bytes: &'a [u8], id: u8) -> Option<Value<'a>>
    ensures { option_map value_view result ≡ first_of id (items_of bytes.entry.now) }
{
    let mut cursor = Cursor::new(bytes);
    while let Some(item) = next_item(&mut cursor) {
        if item.id == id {
            return Some(item.value);
        }
    }
    None
}

impl<'a> Props<'a> {
    ghost use Rattle.mq_props.specs.Making.{HoldsList};

    /// Reads the property list of a place at the front of what the cursor has left (MQTT 5.0,
    /// 2.2.2): its length, and the properties that make up that many bytes. It allocates and copies
    /// nothing.
    ///
    /// # Errors
    ///
    /// The first invalid field from the left, with its offset. For the list's length: `Wire` if it
    /// is misspelled, or if fewer bytes are left. For each property, within the list's bytes:
    /// `Wire` if the identifier is misspelled, `Unknown`, `NotAllowed`, `Repeated`, these at the
    /// identifier; then `Wire` if the value is misspelled, `Value`, `Wildcard`, these at the value.
    /// The cursor has then not moved.
    ///
    /// # Examples
    ///
    /// ```
    /// let mut cursor = Cursor::new(&[3, 0x21, 0, 20]);
    /// let props = Props::read(&mut cursor, Place::Connect)?;
    /// assert_eq!(rt; props.get_receive_maximum(), Some(20));
    /// assert_eq!(rt; props.get_topic_alias_maximum(), None);
    /// ```
    #[inline(always)]
    pub fn read(cursor: &mut Cursor<'a>, place: Place) -> Result<Props<'a>, PropFault>
        // What is read is spelled by the bytes that the cursor moved past, and is valid in the
        // place.
        ensures found { IfOk result (λ props. (bytes : List ℕ) × Lists place props.items bytes × (cursor.old.rest ≡ bytes ++ cursor.new.rest) × (cursor.new ≡ past cursor.old (length bytes))) }
        // What is valid there is read, whatever follows it.
        ensures only { (ps : List Property) (bytes rest : List ℕ) → Lists place ps bytes → cursor.old.rest ≡ bytes ++ rest
            → IsOkAnd result (λ props. props.items ≡ ps) × (cursor.new ≡ past cursor.old (length bytes)) }
        // Else the first invalid field is named.
        ensures broken { IfErr result (λ fault. BreaksList place cursor.old fault) }
        // That field begins in what was left, or right after it.
        ensures within { IfErr result (λ fault. (cursor.old.at ≤ fault.at) × (fault.at ≤ cursor.old.at + length cursor.old.rest)) }
        ensures exact { ReadsFront (λ props. props.items) result (list_on place cursor.old) cursor.new }
        ensures place { IfOk result (λ props. props.place ≡ place) }
        ensures err { OnErr result (cursor.new ≡ cursor.old) }
    {
        list_at(cursor, place)
    }

    /// The empty list for the place.
    #[inline(always)]
    pub fn empty(place: Place) -> Props<'a>
        ensures { result ≡ record { place = place; items = [] } }
    {
        Props::of(place, Facts::new(), &[])
    }

    // The list that the bytes spell, with its facts.
    #[inline(always)]
    pub(crate) fn of(place: Place, facts: Facts, bytes: &'a [u8]) -> Props<'a>
        requires { HoldsList place facts bytes.now }
        ensures { result ≡ record { place = place; items = items_of bytes.entry.now } }
    {
        Props {
            bytes,
            seen: facts.seen,
            topic_alias: facts.topic_alias,
            place,
        }
    }

    /// The place that the list is for.
    pub fn place(&self) -> Place
        ensures { result ≡ self.now.place }
    {
        self.place
    }

    /// The bytes that spell the properties, at most 268,435,455, without the list's length before
    /// them. A list has exactly one spelling.
    pub fn as_bytes(&self) -> &'a [u8]
        ensures spelled { result.now ≡ body self.now.items }
        ensures allowed { AreAllowed self.now.place self.now.items }
        ensures bound { length result.now ≤ max_varint }
    {
        self.bytes
    }

    /// The properties, in order.
    ///
    /// # Examples
    ///
    /// ```
    /// let mut cursor = Cursor::new(&[3, 0x21, 0, 20]);
    /// let mut props = Props::read(&mut cursor, Place::Connect)?.iter();
    /// assert!(rt; matches!(props.next(), Some(Prop::ReceiveMaximum(20))));
    /// assert!(rt; props.next().is_none());
    /// ```
    pub fn iter(&self) -> PropsIter<'a>
        ensures { result ≡ self.now.items }
    {
        PropsIter {
            cursor: Cursor::new(self.bytes),
        }
    }

    /// Whether there is a property with the identifier.
    #[inline(always)]
    pub(crate) fn has(&self, id: u8) -> bool
        requires { id < 43 }
        ensures occurs { result ≡ occurs_in id self.now.items }
        ensures absent { result ≡ false → first_of id self.now.items ≡ None }
        ensures allowed { AreAllowed self.now.place self.now.items }
    {
        self.seen.has(id)
    }

    /// The value of the first property with the identifier.
    #[inline(always)]
    pub(crate) fn first(&self, id: u8) -> Option<Value<'a>>
        ensures { option_map value_view result ≡ first_of id self.now.items }
    {
        first_in(self.bytes, id)
    }
}

/// The properties of a list, in order.
#[derive(Debug, Drop)]
pub struct PropsIter<'a> {
    cursor: Cursor<'a>,
}

impl<'a> Model for PropsIter<'a> {
    ghost use Rattle.std.specs.Prelude.{List};
    ghost use Rattle.mq_props.specs.Values.{Property};
    ghost use Rattle.mq_props.specs.Reading.{items_on};

    ghost Value = { List Property };

    ghost view = { λ s. items_on s.cursor };
}

// The next property at the front of what is left; none only if nothing is left.
fn next_prop<'a>(cursor: &mut Cursor<'a>) -> Option<Prop<'a>>
    ensures { MatchOption result ((items_on cursor.old ≡ []) × (items_on cursor.new ≡ [])) (λ prop. items_on cursor.old ≡ prop_view prop ∷ items_on cursor.new) }
{
    let Some(item) = next_item(cursor) else {
        *cursor = Cursor::new(&[]);
        return None;
    };
    Some(prop_of(item).unwrap())
}

impl<'a> Iterator for PropsIter<'a> {
    type Item = Prop<'a>;

    ghost next_gives = { YieldsFirstBy prop_view (λ s. s) };

    ghost remaining = { item_count (λ s. s) };

    fn next(&mut self) -> Option<Prop<'a>> {
        next_prop(&mut self.cursor)
    }
}
