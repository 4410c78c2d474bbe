//! The examples in the documentation of the public calls, as they stand there.

use mq_packet::*;
use mq_props::{Place, Prop, Props, PropsBuf, PushFault};
use mq_topic::{AliasTable, FilterFault, check_filter, matches};
use mq_wire::{Cursor, put_text, put_varint};
use std::test::Fail;

#[test]
fn fields(rt: HostRuntime) -> Result<(), Fail> {
    let mut cursor = Cursor::new(b"\x00\x0A\x00\x03a/b");
    assert_eq!(rt; cursor.u16()?, 10);
    assert_eq!(rt; cursor.text()?, "a/b");
    assert!(rt; cursor.is_empty());

    Ok(())
}

#[test]
fn varints(rt: HostRuntime) -> Result<(), Fail> {
    let mut out = Vec::new(rt.alloc());
    put_varint(&mut out, 321)?;
    assert_eq!(rt; out.as_slice(), b"\xC1\x02".as_slice());
    Ok(())
}

#[test]
fn texts(rt: HostRuntime) -> Result<(), Fail> {
    let mut out = Vec::new(rt.alloc());
    put_text(&mut out, "A\u{2A6D4}")?;
    assert_eq!(rt; out.as_slice(), b"\x00\x05A\xF0\xAA\x9B\x94".as_slice());
    Ok(())
}

#[test]
fn topics(rt: HostRuntime) {
    assert!(rt; matches("sport/+/player1", "sport/tennis/player1"));
    assert!(rt; matches("sport/#", "sport"));
    assert!(rt; !matches("#", "$SYS/monitor"));
}

#[test]
fn filters(rt: HostRuntime) {
    assert_eq!(rt; check_filter("sport/tennis/#"), Ok(()));
    assert_eq!(rt;
        check_filter("sport/tennis#"),
        Err(FilterFault::HashNotAlone)
    );
}

#[test]
fn aliases(rt: HostRuntime) {
    let mut aliases = AliasTable::new(rt.alloc());
    assert_eq!(rt; aliases.set(1, "sport/tennis"), Ok(()));
    assert_eq!(rt; aliases.get(1), Some("sport/tennis"));
    assert_eq!(rt; aliases.get(2), None);
}

#[test]
fn properties(rt: HostRuntime) -> Result<(), Fail> {
    let mut cursor = Cursor::new(&[3, 0x21, 0, 20]);
    let props = Props::read(&mut cursor, Place::Connect)?;
    assert_eq!(rt; props.get_receive_maximum(), Some(20));
    assert_eq!(rt; props.get_topic_alias_maximum(), None);
    Ok(())
}

#[test]
fn each_property(rt: HostRuntime) -> Result<(), Fail> {
    let mut cursor = Cursor::new(&[3, 0x21, 0, 20]);
    let mut props = Props::read(&mut cursor, Place::Connect)?.iter();
    assert!(rt; matches!(props.next(), Some(Prop::ReceiveMaximum(20))));
    assert!(rt; props.next().is_none());
    Ok(())
}

#[test]
fn pushed_properties(rt: HostRuntime) -> Result<(), Fail> {
    let mut list = PropsBuf::new(rt.alloc(), Place::Connack);
    list.push(&Prop::ServerKeepAlive(30))?;
    assert_eq!(rt;
        list.push(&Prop::ServerKeepAlive(60)),
        Err(PushFault::Repeated)
    );
    assert_eq!(rt; list.as_props().as_bytes(), [0x13, 0, 30].as_slice());
    Ok(())
}

#[test]
fn fixed_headers(rt: HostRuntime) {
    let whole = FixedHeader::Whole { length: 2, size: 4 };
    assert_eq!(rt; fixed_header(&[0x40, 2]), whole);
    assert_eq!(rt; fixed_header(&[0x40]), FixedHeader::Short);
}

#[test]
fn frames(rt: HostRuntime) {
    let puback = Cut::Frame {
        first: 0x40,
        body_start: 2,
        body_end: 4,
    };
    assert_eq!(rt; cut(&[0x40, 2, 0, 10, 0xC0]), puback);
    assert_eq!(rt; cut(&[0xC0]), Cut::Need);
}

#[test]
fn decoded_packets(rt: HostRuntime) -> Result<(), Fail> {
    let packet = decode(0x40, &[0, 10])?;
    assert_eq!(rt; packet.kind(), PacketType::Puback);
    match decode(0x40, &[0, 0]) {
        Err(DecodeFault::Broken(fault)) => assert_eq!(rt; fault.rule, PacketRule::W09),
        _ => assert!(rt; false),
    }
    Ok(())
}

#[test]
fn topic_filters(rt: HostRuntime) -> Result<(), Fail> {
    let filters = Filters::of(b"\x00\x03a/b\x01", true).ok_or("no filters")?;
    let wanted = Filter {
        filter: "a/b",
        options: Some(1),
    };
    assert_eq!(rt; filters.iter().next(), Some(wanted));
    Ok(())
}

#[test]
fn encoded_packets(rt: HostRuntime) -> Result<(), Fail> {
    let packet = decode(0xE0, &[0x04, 0x00])?;
    let mut out = Vec::new(rt.alloc());
    if is_valid(&packet) {
        encode(&packet, &mut out)?;
    }
    assert_eq!(rt; out.as_slice(), [0xE0, 0x01, 0x04].as_slice());
    Ok(())
}
