//! A PUBLISH in its shortest form, which decoders of its own read.

use mq_packet::*;

// What one brief PUBLISH has and another has not, in their order: DUP, the QoS, RETAIN, the Topic
// Name, the Packet Identifier and the payload.
type Fields<'a> = (bool, Qos, bool, &'a str, Option<u16>, &'a [u8]);

// The fields of a PUBLISH, to be compared.
fn fields<'a>(publish: &Publish<'a>) -> Fields<'a> {
    (
        publish.duplicate,
        publish.qos,
        publish.retain,
        publish.topic,
        publish.identifier,
        publish.payload,
    )
}

// What is read briefly.
fn briefly<'a>(first: u8, body: &'a [u8]) -> Option<Fields<'a>> {
    if !(0x30..0x40).contains(&first) || body.len() > 100 {
        return None;
    }
    let publish = match decode_brief_publish(first, body) {
        Some(publish) => Some(publish),
        None => decode_identified_publish(first, body),
    };
    publish.as_ref().map(fields)
}

// What is read by the decoder of all packets.
fn fully<'a>(first: u8, body: &'a [u8]) -> Option<Fields<'a>> {
    if body.len() > 100 {
        return None;
    }
    match decode(first, body) {
        Ok(Packet::Publish(publish)) => Some(fields(&publish)),
        _ => None,
    }
}

// First bytes and bodies that are brief.
const BRIEF: [(u8, &[u8]); 9] = [
    (0x30, b"\x00\x01a\x00hi"),
    (0x31, b"\x00\x03a/b\x00"),
    (0x32, b"\x00\x01a\x00\x01\x00hi"),
    (0x33, b"\x00\x01a\x01\x00\x00"),
    (0x34, b"\x00\x01a\xff\xff\x00x"),
    (0x35, b"\x00\x12abcdefghijklmnopqr\x12\x34\x00\x00"),
    (0x3A, b"\x00\x01a\x00\x01\x00hi"),
    (0x3C, b"\x00\x01a\x00\x01\x00hi"),
    (0x3D, b"\x00\x01a\x00\x01\x00"),
];

// What isn't: a QoS of 3, DUP with QoS 0, no Topic Name, a wildcard, a Topic Name that isn't ASCII,
// the Packet Identifier 0, a property, and what is cut short.
const OTHERS: [(u8, &[u8]); 15] = [
    (0x36, b"\x00\x01a\x00\x01\x00hi"),
    (0x38, b"\x00\x01a\x00hi"),
    (0x30, b"\x00\x00\x00hi"),
    (0x32, b"\x00\x00\x00\x01\x00hi"),
    (0x30, b"\x00\x01#\x00hi"),
    (0x32, b"\x00\x01+\x00\x01\x00hi"),
    (0x32, b"\x00\x02\xC3\xA4\x00\x01\x00hi"),
    (0x32, b"\x00\x01a\x00\x00\x00hi"),
    (0x30, b"\x00\x01a\x02\x01\x00hi"),
    (0x34, b"\x00\x01a\x00\x01\x02\x01\x00hi"),
    (0x32, b""),
    (0x32, b"\x00\x02a"),
    (0x32, b"\x00\x01a"),
    (0x32, b"\x00\x01a\x00"),
    (0x32, b"\x00\x01a\x00\x01"),
];

// Whether this is read briefly, and as by the decoder of all packets.
fn is_read_alike(first: u8, body: &[u8]) -> bool {
    let read = fully(first, body);
    read.is_some() && briefly(first, body) == read
}

#[test]
fn as_by_the_decoder_of_all(rt: HostRuntime) {
    for (first, body) in &BRIEF {
        assert!(rt; is_read_alike(*first, body), "{first} {body:?}");
    }
}

#[test]
fn none_for_others(rt: HostRuntime) {
    for (first, body) in &OTHERS {
        assert!(rt; briefly(*first, body).is_none(), "{first} {body:?}");
    }
}
