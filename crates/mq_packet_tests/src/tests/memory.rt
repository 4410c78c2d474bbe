//! What needs memory is done whole, or not at all for want of it. `bench/refusing.py` runs these
//! tests with each allocation refused in turn; without it none is.

use super::harness::MAX_BODY;
use super::packets::{CONNACK, CONNECT, PUBACK, PUBLISH, SUBACK, SUBSCRIBE, UNSUBSCRIBE};
use mq_packet::*;
use mq_props::{Place, Prop, PropsBuf, PushFault};
use mq_topic::AliasTable;
use mq_wire::*;
use std::alloc::Global;

// What each call of `put` appends.
const SPELLED: [&[u8]; 7] = [
    b"\x05",
    b"\x12\x34",
    b"\xDE\xAD\xBE\xEF",
    b"\xFF\xFF\xFF\x7F",
    b"\x00\x03a/b",
    b"\x00\x02\x00\xFF",
    b"\x00\x01a\x00\x02bc",
];

// Writes a field of one of the seven types, by its number.
fn put(out: &mut Vec<u8>, number: usize) -> Result<(), PutFault> {
    match number {
        0 => put_u8(out, 5),
        1 => put_u16(out, 0x1234),
        2 => put_u32(out, 0xDEAD_BEEF),
        3 => put_varint(out, 268_435_455),
        4 => put_text(out, "a/b"),
        5 => put_binary(out, &[0, 255]),
        _ => put_pair(out, "a", "bc"),
    }
}

// Whether a field is appended whole, or not at all for want of memory.
fn is_put(out: &mut Vec<u8>, number: usize, spelled: &[u8]) -> bool {
    let before = out.len();
    match put(out, number) {
        Ok(()) => out.get(before..) == Some(spelled),
        Err(fault) => fault == PutFault::Memory && out.len() == before,
    }
}

#[test]
fn puts_fields_whole(rt: HostRuntime) {
    let mut out = Vec::new(rt.alloc());
    for _ in 0..20 {
        for (number, spelled) in SPELLED.iter().enumerate() {
            assert!(rt; is_put(&mut out, number, spelled), "{spelled:?}");
        }
    }
}

// Whether the property is appended whole, or not at all for want of memory.
fn is_pushed(list: &mut PropsBuf, prop: &Prop<'_>, spelled: &[u8]) -> bool {
    let before = list.as_props().as_bytes().len();
    match list.push(prop) {
        Ok(()) => list.as_props().as_bytes().get(before..) == Some(spelled),
        Err(fault) => fault == PushFault::Memory && list.as_props().as_bytes().len() == before,
    }
}

#[test]
fn pushes_properties_whole(rt: HostRuntime) {
    let mut list = PropsBuf::new(rt.alloc(), Place::Publish);
    assert!(rt; is_pushed(&mut list, &Prop::TopicAlias(1), b"\x23\x00\x01"));
    for _ in 0..20 {
        let pair = Prop::UserProperty("k", "v");
        assert!(rt; is_pushed(&mut list, &pair, b"\x26\x00\x01k\x00\x01v"));
    }
}

const LONG: &str = "a/topic/that/is/longer/than/any/text/kept/in/place";

// Whether the alias has this topic afterwards, or for want of memory the one that it had.
fn is_set(table: &mut AliasTable, alias: u16, before: &str, topic: &str) -> bool {
    let set = table.set(alias, topic);
    let newest = if set.is_ok() { topic } else { before };
    table.get(alias).unwrap_or("") == newest
}

// The first alias that isn't set whole, of twenty that are set to one topic, and one of them then
// to another.
fn first_torn(alloc: Global, first: &str, second: &str) -> Option<u16> {
    let mut table = AliasTable::new(alloc);
    for alias in 1..20 {
        if !is_set(&mut table, alias, "", first) {
            return Some(alias);
        }
    }
    if table.get(1) == Some(first) && !is_set(&mut table, 1, first, second) {
        return Some(1);
    }
    None
}

#[test]
fn sets_aliases_whole(rt: HostRuntime) {
    for (first, second) in &[("a", LONG), (LONG, "a"), (LONG, "b/b")] {
        assert_eq!(rt; first_torn(rt.alloc(), first, second), None);
    }
}

// Whether the packet with this first byte and body is appended whole, or not at all for want of
// memory.
fn is_encoded(out: &mut Vec<u8>, first: u8, body: &[u8]) -> bool {
    let before = out.len();
    if body.len() > MAX_BODY {
        return false;
    }
    let Ok(packet) = decode(first, body) else {
        return false;
    };
    if !is_valid(&packet) {
        return false;
    }
    match encode(&packet, out) {
        Ok(()) => out.len() > before && out.ends_with(body),
        Err(fault) => fault == EncodeFault::Memory && out.len() == before,
    }
}

#[test]
fn encodes_packets_whole(rt: HostRuntime) {
    let mut out = Vec::new(rt.alloc());
    for (first, body) in [
        CONNECT,
        CONNACK,
        PUBLISH,
        PUBACK,
        SUBSCRIBE,
        SUBACK,
        UNSUBSCRIBE,
    ] {
        for _ in 0..2 {
            assert!(rt; is_encoded(&mut out, first, body), "{first}");
        }
    }
}
