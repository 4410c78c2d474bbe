//! Which of its spellings is written for a packet, and its size.

use super::harness::{
    MAX_BODY, acknowledgement, is_written_as, is_written_in_size, list_of, reason_packet,
};
use mq_packet::*;
use mq_props::{Place, Prop, Props};
use std::alloc::Global;
use std::test::Fail;

// The place of the properties of a packet that may leave out its code.
fn place_of(kind: PacketType) -> Option<Place> {
    match kind {
        PacketType::Puback => Some(Place::Puback),
        PacketType::Pubrec => Some(Place::Pubrec),
        PacketType::Pubrel => Some(Place::Pubrel),
        PacketType::Pubcomp => Some(Place::Pubcomp),
        PacketType::Disconnect => Some(Place::Disconnect),
        PacketType::Auth => Some(Place::Auth),
        _ => None,
    }
}

// The packet of this type with these fields, if its code may be left out.
fn with_fields<'a>(
    kind: PacketType,
    answer: Acknowledgement<'a>,
    reason: ReasonPacket<'a>,
) -> Option<Packet<'a>> {
    match kind {
        PacketType::Puback => Some(Packet::Puback(answer)),
        PacketType::Pubrec => Some(Packet::Pubrec(answer)),
        PacketType::Pubrel => Some(Packet::Pubrel(answer)),
        PacketType::Pubcomp => Some(Packet::Pubcomp(answer)),
        PacketType::Disconnect => Some(Packet::Disconnect(reason)),
        PacketType::Auth => Some(Packet::Auth(reason)),
        _ => None,
    }
}

// A packet of this type with this code and no properties, if it may leave these out.
fn bare<'a>(kind: PacketType, code: u8) -> Option<Packet<'a>> {
    let place = place_of(kind)?;
    let answer = acknowledgement(1, code, Props::empty(place));
    let reason = reason_packet(code, Props::empty(place));
    with_fields(kind, answer, reason)
}

// Whether that packet is written as these bytes, and its size is their number.
fn is_written_short(alloc: Global, kind: PacketType, code: u8, bytes: &[u8]) -> Result<bool, Fail> {
    let packet = bare(kind, code).ok_or("no such packet")?;
    is_written_in_size(alloc, &packet, bytes)
}

const SHORTEST: [(PacketType, u8, &[u8]); 12] = [
    (PacketType::Puback, 0, &[0x40, 0x02, 0x00, 0x01]),
    (PacketType::Puback, 0x10, &[0x40, 0x03, 0x00, 0x01, 0x10]),
    (PacketType::Pubrec, 0, &[0x50, 0x02, 0x00, 0x01]),
    (PacketType::Pubrec, 0x80, &[0x50, 0x03, 0x00, 0x01, 0x80]),
    (PacketType::Pubrel, 0, &[0x62, 0x02, 0x00, 0x01]),
    (PacketType::Pubrel, 0x92, &[0x62, 0x03, 0x00, 0x01, 0x92]),
    (PacketType::Pubcomp, 0, &[0x70, 0x02, 0x00, 0x01]),
    (PacketType::Pubcomp, 0x92, &[0x70, 0x03, 0x00, 0x01, 0x92]),
    (PacketType::Disconnect, 0, &[0xE0, 0x00]),
    (PacketType::Disconnect, 0x04, &[0xE0, 0x01, 0x04]),
    (PacketType::Auth, 0, &[0xF0, 0x00]),
    (PacketType::Auth, 0x18, &[0xF0, 0x02, 0x18, 0x00]),
];

#[test]
fn shortest_spellings(rt: HostRuntime) -> Result<(), Fail> {
    for (kind, code, bytes) in &SHORTEST {
        let is_written = is_written_short(rt.alloc(), *kind, *code, bytes)?;
        assert!(rt; is_written, "{bytes:?}");
    }
    Ok(())
}

// Whether this first byte and body are those of a packet that is written as these bytes.
fn is_read_as(alloc: Global, first: u8, body: &[u8], bytes: &[u8]) -> Result<bool, Fail> {
    if body.len() > MAX_BODY {
        return Ok(false);
    }
    match decode(first, body) {
        Ok(packet) => is_written_as(alloc, &packet, bytes),
        Err(_) => Ok(false),
    }
}

// What was read in a longer spelling, or in one without the properties' length, is written in the
// usual one.
#[test]
fn spellings_that_were_read(rt: HostRuntime) -> Result<(), Fail> {
    let rows: [(u8, &[u8], &[u8]); 3] = [
        (0x40, &[0x00, 0x01, 0x00, 0x00], &[0x40, 0x02, 0x00, 0x01]),
        (0xE0, &[0x00, 0x00], &[0xE0, 0x00]),
        (0xF0, &[0x18], &[0xF0, 0x02, 0x18, 0x00]),
    ];
    for (first, body, bytes) in rows {
        assert!(rt; is_read_as(rt.alloc(), first, body, bytes)?, "{bytes:?}");
    }
    Ok(())
}

// Whether a PUBACK of Reason Code 0x00 with this Reason String is written as these bytes.
fn is_puback_written(alloc: Global, reason: &str, bytes: &[u8]) -> Result<bool, Fail> {
    let list = list_of(alloc, Place::Puback, &[Prop::ReasonString(reason)])?;
    let packet = Packet::Puback(acknowledgement(1, 0, list.as_props()));
    is_written_as(alloc, &packet, bytes)
}

// Whether an AUTH of Reason Code 0x00 with this Authentication Method is written as these bytes.
fn is_auth_written(alloc: Global, method: &str, bytes: &[u8]) -> Result<bool, Fail> {
    let list = list_of(alloc, Place::Auth, &[Prop::AuthenticationMethod(method)])?;
    let packet = Packet::Auth(reason_packet(0, list.as_props()));
    is_written_as(alloc, &packet, bytes)
}

// With properties, a Reason Code of 0x00 is written too.
#[test]
fn whole_spellings(rt: HostRuntime) -> Result<(), Fail> {
    let puback = b"\x40\x08\x00\x01\x00\x04\x1F\x00\x01r";
    assert!(rt; is_puback_written(rt.alloc(), "r", puback)?);
    let auth = b"\xF0\x06\x00\x04\x15\x00\x01m";
    assert!(rt; is_auth_written(rt.alloc(), "m", auth)?);
    Ok(())
}

// A minimal CONNECT: no Will, no User Name, no Password.
#[test]
fn least_connect(rt: HostRuntime) -> Result<(), Fail> {
    let packet = Packet::Connect(Connect {
        clean_start: false,
        keep_alive: 0,
        properties: Props::empty(Place::Connect),
        client_identifier: "",
        will: None,
        user_name: None,
        password: None,
    });
    let wanted: &[u8] = &[0x10, 13, 0, 4, b'M', b'Q', b'T', b'T', 5, 0, 0, 0, 0, 0, 0];
    assert!(rt; is_written_as(rt.alloc(), &packet, wanted)?);
    Ok(())
}

// The size of a packet of this type whose body was so long; None if its code may not be left out.
fn size_as_read(kind: PacketType, length: u32) -> Option<Option<u32>> {
    let place = place_of(kind)?;
    let answer = Acknowledgement {
        identifier: 1,
        code: 0,
        properties: Props::empty(place),
        read_len: Some(length),
    };
    let reason = ReasonPacket {
        code: 0,
        properties: Props::empty(place),
        read_len: Some(length),
    };
    Some(with_fields(kind, answer, reason)?.size())
}

#[test]
fn lengths_as_read(rt: HostRuntime) {
    assert_eq!(rt; size_as_read(PacketType::Puback, 4), Some(Some(6)));
    assert_eq!(rt; size_as_read(PacketType::Disconnect, 2), Some(Some(4)));
    assert_eq!(rt; size_as_read(PacketType::Auth, 268_435_456), Some(None));
}

#[test]
fn types_have_their_numbers(rt: HostRuntime) {
    let rows = [
        (PacketType::Connect, 1),
        (PacketType::Connack, 2),
        (PacketType::Publish, 3),
        (PacketType::Puback, 4),
        (PacketType::Pubrec, 5),
        (PacketType::Pubrel, 6),
        (PacketType::Pubcomp, 7),
        (PacketType::Subscribe, 8),
        (PacketType::Suback, 9),
        (PacketType::Unsubscribe, 10),
        (PacketType::Unsuback, 11),
        (PacketType::Pingreq, 12),
        (PacketType::Pingresp, 13),
        (PacketType::Disconnect, 14),
        (PacketType::Auth, 15),
    ];
    for (packet_type, number) in rows {
        assert_eq!(rt; packet_type as u8, number);
    }
}
