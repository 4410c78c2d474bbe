//! A property list that is built property by property.

ghost use Rattle.std.specs.Prelude.{◌≡◌, ◌+◌, ◌<◌, ◌≤◌, ◌||◌, false, [], ◌∷◌, ◌++◌, length, take, OnOk, OnErr, IsOkUnless, MatchOption, Some, Err, nat_lt, vec_len, vec_capacity};
ghost use Rattle.mq_wire.specs.Spellings.{max_two_bytes, max_varint, has_nul};
ghost use Rattle.mq_props.specs.Table.{row_view, row_of};
ghost use Rattle.mq_props.specs.Values.{byte_value, two_bytes_value, four_bytes_value, varint_value, text_value, pair_value, binary_value, IsValue, value_spelling, property_spelling, body};
ghost use Rattle.mq_props.specs.Reading.{items_of};
ghost use Rattle.mq_props.specs.Pushing.{nul_in, is_long, is_large, is_bad, overflows, push_fault_by_line, push_fault, AppendsValue};
ghost use Rattle.mq_props.specs.Views.{Sees, item_view, value_view};
ghost use Rattle.mq_props.specs.Props.{prop_view};

use crate::facts::Facts;
use crate::fault::PushFault;
use crate::prop::{Prop, item_of};
use crate::props::Props;
use crate::seen::Seen;
use crate::table::{Place, Row, find_row, lists_place, may_repeat_in};
use crate::value::{Item, Value, is_in_range, is_wild_in};
use mq_wire::{
    MAX_LEN, MAX_VARINT, contains_nul, put_binary, put_pair, put_text, put_u8, put_u16, put_u32,
    put_varint, varint_len,
};
use std::alloc::Global;
use std::marker::Model;

/// A property list that is built for its place, and is valid there at any moment (MQTT 5.0, 2.2.2).
///
/// A contract sees its place and its properties, in order, and how many more bytes fit without
/// another allocation.
#[derive(Debug, Drop)]
pub struct PropsBuf {
    place: Place,
    facts: Facts,
    bytes: Vec<u8>,
}

impl Model for PropsBuf {
    ghost use Rattle.std.specs.Prelude.{◌-◌, vec_len, vec_capacity};
    ghost use Rattle.mq_props.specs.Reading.{items_of};
    ghost use Rattle.mq_props.specs.Making.{Made, HoldsList};

    ghost Value = { Made };

    ghost view = { λ b. record { list = record { place = b.place; items = items_of b.bytes.items }; spare = vec_capacity b.bytes - vec_len b.bytes } };

    ghost invariant = { λ b. HoldsList b.place b.facts b.bytes.items };
}

// Whether there are more bytes than a length of two bytes can say (MQTT 5.0, 1.5.4 and 1.5.6).
fn is_over(bytes: &[u8]) -> bool
    ensures { result ≡ nat_lt max_two_bytes (length bytes.now) }
{
    bytes.len() > MAX_LEN
}

// Whether a text of the value has U+0000, as none may (MQTT 5.0, 1.5.4).
fn has_nul_in(value: &Value) -> bool
    ensures { result ≡ nul_in (value_view value.now) }
{
    match *value {
        Value::Text(text) => contains_nul(text),
        Value::Pair(name, value) => contains_nul(name) || contains_nul(value),
        Value::Byte(_) => false,
        Value::TwoBytes(_) => false,
        Value::FourBytes(_) => false,
        Value::Varint(_) => false,
        Value::Binary(_) => false,
    }
}

// Whether a text of the value, or its Binary Data, has more than 65,535 bytes.
fn is_long_value(value: &Value) -> bool
    ensures { result ≡ is_long (value_view value.now) }
{
    match *value {
        Value::Text(text) => is_over(text.as_bytes()),
        Value::Pair(name, value) => is_over(name.as_bytes()) || is_over(value.as_bytes()),
        Value::Binary(bytes) => is_over(bytes),
        Value::Byte(_) => false,
        Value::TwoBytes(_) => false,
        Value::FourBytes(_) => false,
        Value::Varint(_) => false,
    }
}

// Whether the value is a Variable Byte Integer above 268,435,455 (MQTT 5.0, 1.5.5).
fn is_large_value(value: &Value) -> bool
    ensures { result ≡ is_large (value_view value.now) }
{
    match *value {
        Value::Varint(number) => number > MAX_VARINT,
        Value::Byte(_) => false,
        Value::TwoBytes(_) => false,
        Value::FourBytes(_) => false,
        Value::Text(_) => false,
        Value::Pair(_, _) => false,
        Value::Binary(_) => false,
    }
}

// Whether the property may not have the value there for another reason than its length.
fn is_bad_value(place: Place, row: Row, value: &Value) -> bool
    ensures { result ≡ is_bad place (row_view row.entry) (value_view value.now) }
{
    let (identifier, _, range, _) = row;
    !is_in_range(range, value)
        || is_wild_in(place, identifier, value)
        || has_nul_in(value)
        || is_large_value(value)
}

// How many bytes spell the value.
fn value_len(value: &Value) -> usize
    requires { is_long (value_view value.now) ≡ false }
    ensures len { result ≡ length (value_spelling (value_view value.now)) }
    ensures bound { result ≤ 131074 }
{
    match *value {
        Value::Byte(_) => 1,
        Value::TwoBytes(_) => 2,
        Value::FourBytes(_) => 4,
        Value::Varint(number) => varint_len(number),
        Value::Text(text) => 2 + text.len(),
        Value::Pair(name, value) => 4 + name.len() + value.len(),
        Value::Binary(bytes) => 2 + bytes.len(),
    }
}

// Whether the property makes a list of `len` bytes longer than a length can count.
fn is_over_all(len: usize, value: &Value) -> bool
    requires long { is_long (value_view value.now) ≡ false }
    requires len { len ≤ max_varint }
    ensures { result ≡ nat_lt max_varint (len + (1 + length (value_spelling (value_view value.now)))) }
{
    len + (1 + value_len(value)) > MAX_VARINT as usize
}

// Whether the list of these bytes would, with the property, have more than a length can count.
fn is_over_list(bytes: &[u8], id: u8, value: &Value) -> bool
    requires spelled { bytes.now ≡ body (items_of bytes.now) }
    requires bound { length bytes.now ≤ max_varint }
    requires known { id < 43 }
    requires long { is_long (value_view value.now) ≡ false }
    ensures { result ≡ overflows (items_of bytes.now) (record { id = id; value = value_view value.now }) }
{
    is_over_all(bytes.len(), value)
}

// Whether a field of the value is too long, or the list would be with the property.
fn is_too_long(bytes: &[u8], id: u8, value: &Value) -> bool
    requires spelled { bytes.now ≡ body (items_of bytes.now) }
    requires bound { length bytes.now ≤ max_varint }
    requires known { id < 43 }
    ensures { result ≡ (is_long (value_view value.now) || overflows (items_of bytes.now) (record { id = id; value = value_view value.now })) }
{
    is_long_value(value) || is_over_list(bytes, id, value)
}

// Why a property with the value can't be appended to the list of these bytes, if so. `seen` has the
// list's identifiers.
fn fault_with(place: Place, seen: Seen, bytes: &[u8], row: Row, value: &Value) -> Option<PushFault>
    requires sees { Sees seen (items_of bytes.now) }
    requires spelled { bytes.now ≡ body (items_of bytes.now) }
    requires bound { length bytes.now ≤ max_varint }
    requires known { row.0 < 43 }
    ensures { result ≡ push_fault_by_line (record { place = place; items = items_of bytes.now }) (value_view value.now) (Some (row_view row.entry)) }
{
    let (identifier, _, _, places) = row;
    if !lists_place(places, place) {
        return Some(PushFault::NotAllowed);
    }
    if seen.has(identifier) && !may_repeat_in(place, identifier) {
        return Some(PushFault::Repeated);
    }
    if is_bad_value(place, row, value) {
        return Some(PushFault::Value);
    }
    if is_too_long(bytes, identifier, value) {
        return Some(PushFault::TooLong);
    }
    None
}

// Why the property can't be appended to the list of these bytes, if so: one that isn't in the table
// is allowed nowhere. `seen` has the list's identifiers.
fn fault_in(place: Place, seen: Seen, bytes: &[u8], item: &Item) -> Option<PushFault>
    requires sees { Sees seen (items_of bytes.now) }
    requires spelled { bytes.now ≡ body (items_of bytes.now) }
    requires bound { length bytes.now ≤ max_varint }
    ensures { result ≡ push_fault (record { place = place; items = items_of bytes.now }) (item_view item.now) }
{
    match find_row(u32::from(item.id)) {
        Some(row) => fault_with(place, seen, bytes, row, &item.value),
        None => Some(PushFault::NotAllowed),
    }
}

// Appends a Byte, or nothing if there is no memory.
#[tactic(auto, using(mq_wire::proofs::Exports::number_room))]
fn put_byte(out: &mut Vec<u8>, number: u8) -> Result<(), PushFault>
    ensures { AppendsValue (byte_value number) result out.old out.new }
{
    put_u8(out, number).map_err(|_| PushFault::Memory)
}

// Appends a Two Byte Integer (MQTT 5.0, 1.5.2), or nothing if there is no memory.
#[tactic(auto, using(mq_wire::proofs::Exports::number_room))]
fn put_two_bytes(out: &mut Vec<u8>, number: u16) -> Result<(), PushFault>
    ensures { AppendsValue (two_bytes_value number) result out.old out.new }
{
    put_u16(out, number).map_err(|_| PushFault::Memory)
}

// Appends a Four Byte Integer (MQTT 5.0, 1.5.3), or nothing if there is no memory.
#[tactic(auto, using(mq_wire::proofs::Exports::number_room))]
fn put_four_bytes(out: &mut Vec<u8>, number: u32) -> Result<(), PushFault>
    ensures { AppendsValue (four_bytes_value number) result out.old out.new }
{
    put_u32(out, number).map_err(|_| PushFault::Memory)
}

// Appends a Variable Byte Integer (MQTT 5.0, 1.5.5), or nothing if there is no memory.
#[tactic(auto, using(mq_wire::proofs::Exports::counted_room))]
fn put_number(out: &mut Vec<u8>, number: u32) -> Result<(), PushFault>
    requires { number ≤ max_varint }
    ensures { AppendsValue (varint_value number) result out.old out.new }
{
    put_varint(out, number).map_err(|_| PushFault::Memory)
}

// Appends a UTF-8 Encoded String (MQTT 5.0, 1.5.4), or nothing if there is no memory.
#[tactic(auto, using(mq_wire::proofs::Exports::text_room))]
fn put_string(out: &mut Vec<u8>, string: &str) -> Result<(), PushFault>
    requires short { length string.now ≤ max_two_bytes }
    requires no_nul { has_nul string.now ≡ false }
    ensures { AppendsValue (text_value string.now) result out.old out.new }
{
    put_text(out, string).map_err(|_| PushFault::Memory)
}

// Appends a UTF-8 String Pair (MQTT 5.0, 1.5.7), or nothing if there is no memory.
#[tactic(auto, using(mq_wire::proofs::Exports::pair_room))]
fn put_strings(out: &mut Vec<u8>, name: &str, value: &str) -> Result<(), PushFault>
    requires name_short { length name.now ≤ max_two_bytes }
    requires value_short { length value.now ≤ max_two_bytes }
    requires name_no_nul { has_nul name.now ≡ false }
    requires value_no_nul { has_nul value.now ≡ false }
    ensures { AppendsValue (pair_value name.now value.now) result out.old out.new }
{
    put_pair(out, name, value).map_err(|_| PushFault::Memory)
}

// Appends Binary Data (MQTT 5.0, 1.5.6), or nothing if there is no memory.
#[tactic(auto, using(mq_wire::proofs::Exports::counted_room))]
fn put_bytes(out: &mut Vec<u8>, bytes: &[u8]) -> Result<(), PushFault>
    requires { length bytes.now ≤ max_two_bytes }
    ensures { AppendsValue (binary_value bytes.now) result out.old out.new }
{
    put_binary(out, bytes).map_err(|_| PushFault::Memory)
}

// Appends a value of any type, or nothing if there is no memory.
fn put_value(out: &mut Vec<u8>, value: &Value) -> Result<(), PushFault>
    requires long { is_long (value_view value.now) ≡ false }
    requires nul { nul_in (value_view value.now) ≡ false }
    requires large { is_large (value_view value.now) ≡ false }
    ensures { AppendsValue (value_view value.now) result out.old out.new }
{
    match *value {
        Value::Byte(number) => put_byte(out, number),
        Value::TwoBytes(number) => put_two_bytes(out, number),
        Value::FourBytes(number) => put_four_bytes(out, number),
        Value::Varint(number) => put_number(out, number),
        Value::Text(string) => put_string(out, string),
        Value::Pair(name, value) => put_strings(out, name, value),
        Value::Binary(bytes) => put_bytes(out, bytes),
    }
}

// Appends the property, or only a part of it if there is no memory.
#[tactic(auto, using(crate::proofs::Pushes::id_spelled, crate::proofs::Pushes::no_room, crate::proofs::Pushes::no_room_after, std::proofs::lemmas::List::append_assoc, std::proofs::lemmas::List::take_at))]
fn put_item(out: &mut Vec<u8>, item: &Item) -> Result<(), PushFault>
    requires id { item.now.id < 128 }
    requires long { is_long (value_view item.now.value) ≡ false }
    requires nul { nul_in (value_view item.now.value) ≡ false }
    requires large { is_large (value_view item.now.value) ≡ false }
    ensures ok { OnOk result (out.new.items ≡ out.old.items ++ property_spelling (item_view item.now)) }
    ensures valid { OnOk result (IsValue (value_view item.now.value)) }
    ensures grows { take (length out.old.items) out.new.items ≡ out.old.items }
    ensures memory { IsOkUnless result PushFault.Memory }
    ensures room { OnErr result (vec_capacity out.old < vec_len out.old + length (property_spelling (item_view item.now))) }
{
    put_byte(out, item.id)?;
    put_value(out, &item.value)
}

// Appends the property, or nothing if there is no memory.
fn append(out: &mut Vec<u8>, item: &Item) -> Result<(), PushFault>
    requires id { item.now.id < 128 }
    requires long { is_long (value_view item.now.value) ≡ false }
    requires nul { nul_in (value_view item.now.value) ≡ false }
    requires large { is_large (value_view item.now.value) ≡ false }
    ensures ok { OnOk result (out.new.items ≡ out.old.items ++ property_spelling (item_view item.now)) }
    ensures valid { OnOk result (IsValue (value_view item.now.value)) }
    ensures err { OnErr result (out.new.items ≡ out.old.items) }
    ensures memory { IsOkUnless result PushFault.Memory }
    ensures room { OnErr result (vec_capacity out.old < vec_len out.old + length (property_spelling (item_view item.now))) }
{
    let len = out.len();
    let written = put_item(out, item);
    if written.is_err() {
        out.truncate(len);
    }
    written
}

impl PropsBuf {
    /// The empty list for the place. It takes no memory.
    pub fn new(alloc: Global, place: Place) -> PropsBuf
        ensures list { result.list ≡ record { place = place; items = [] } }
        ensures spare { result.spare ≡ 0 }
    {
        PropsBuf {
            place,
            facts: Facts::new(),
            bytes: Vec::new(alloc),
        }
    }

    /// Appends the property.
    ///
    /// # Errors
    ///
    /// The [`PushFault`] with the lowest number of those that apply: `Memory` only if the property
    /// has more bytes than fit without another allocation. The list is then unchanged.
    ///
    /// # Examples
    ///
    /// ```
    /// let mut list = PropsBuf::new(rt.alloc(), Place::Connack);
    /// list.push(&Prop::ServerKeepAlive(30))?;
    /// assert_eq!(rt;
    ///     list.push(&Prop::ServerKeepAlive(60)),
    ///     Err(PushFault::Repeated)
    /// );
    /// assert_eq!(rt; list.as_props().as_bytes(), [0x13, 0, 30].as_slice());
    /// ```
    pub fn push(&mut self, prop: &Prop) -> Result<(), PushFault>
        ensures ok { OnOk result (self.new.list ≡ record { place = self.old.list.place; items = self.old.list.items ++ prop_view prop.now ∷ [] }) }
        ensures err { OnErr result (self.new.list ≡ self.old.list) }
        // It fails for the lowest reason that applies, and else only for want of memory.
        ensures refused { MatchOption (push_fault self.old.list (prop_view prop.now)) (IsOkUnless result PushFault.Memory) (λ fault. result ≡ Err fault) }
        ensures memory { result ≡ Err PushFault.Memory → self.old.spare < length (property_spelling (prop_view prop.now)) }
    {
        let item = item_of(*prop);
        if let Some(fault) = fault_in(self.place, self.facts.seen, &self.bytes, &item) {
            return Err(fault);
        }
        append(&mut self.bytes, &item)?;
        self.facts = self.facts.with_item(&item);
        Ok(())
    }

    /// The list, borrowed.
    pub fn as_props(&self) -> Props<'_>
        ensures { result ≡ self.now.list }
    {
        Props::of(self.place, self.facts, &self.bytes)
    }
}
