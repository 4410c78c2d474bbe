//! What no clause can say: that there is memory for the notes of the largest packets.

use mq_log::Direction;
use mq_packet::decode;
use mq_rules::{ItemNote, Note, PacketFields};
use std::alloc::{AllocError, Global};
use std::test::Fail;

/// The most bytes of a body in these tests.
const MAX_BODY: usize = 100_000;

// A body of these first bytes, and of this one up to this size.
fn filled(alloc: Global, start: &[u8], filler: u8, size: usize) -> Result<Vec<u8>, AllocError> {
    let mut body = Vec::new(alloc);
    body.extend_from_slice(start)?;
    body.resize(size, filler)?;
    Ok(body)
}

// The length of a PUBLISH's Topic Name and the Topic Alias, by its note.
fn topic_of(note: &Note) -> Option<(usize, Option<u16>)> {
    match note {
        Note::Sent(ItemNote::Packet(packet)) => match &packet.fields {
            PacketFields::Publish(publish) => Some((publish.topic.len(), publish.topic_alias)),
            _ => None,
        },
        _ => None,
    }
}

// Whether the note of the packet with this body, if that isn't too long, is made.
fn is_noted(
    alloc: Global,
    direction: Direction,
    first: u8,
    body: &[u8],
    size: u32,
) -> Result<bool, Fail> {
    if body.len() > MAX_BODY {
        return Ok(false);
    }
    let packet = decode(first, body)?;
    Ok(Note::of_packet(alloc, direction, size, &packet).is_ok())
}

// The same by the note of the PUBLISH that was sent with this body, if that isn't too long.
fn noted_topic(
    alloc: Global,
    body: &[u8],
    size: u32,
) -> Result<Option<(usize, Option<u16>)>, Fail> {
    if body.len() > MAX_BODY {
        return Ok(None);
    }
    let packet = decode(0x30, body)?;
    let note = Note::of_packet(alloc, Direction::Sent, size, &packet)?;
    Ok(topic_of(&note))
}

// The same of a PUBLISH with the longest Topic Name and the largest Topic Alias.
fn longest_topic(alloc: Global) -> Result<Option<(usize, Option<u16>)>, Fail> {
    let mut body = filled(alloc, &[0xff, 0xff], b'a', 65_537)?;
    body.extend_from_slice(&[3, 0x23, 0xff, 0xff])?;
    noted_topic(alloc, &body, 65_545)
}

#[test]
fn notes_the_longest_topic(rt: HostRuntime) -> Result<(), Fail> {
    assert_eq!(rt; longest_topic(rt.alloc())?, Some((65_535, Some(65_535))));
    Ok(())
}

// Whether a SUBSCRIBE with the longest Topic Filter, that was received, is noted.
fn is_longest_filter_noted(alloc: Global) -> Result<bool, Fail> {
    let mut body = filled(alloc, &[0, 1, 0, 0xff, 0xff], b'a', 65_540)?;
    body.push(2)?;
    is_noted(alloc, Direction::Recv, 0x82, &body, 65_545)
}

#[test]
fn notes_the_longest_filter(rt: HostRuntime) -> Result<(), Fail> {
    assert!(rt; is_longest_filter_noted(rt.alloc())?);
    Ok(())
}

// Whether a SUBACK with very many Reason Codes, that was sent, is noted.
fn are_many_codes_noted(alloc: Global) -> Result<bool, Fail> {
    let body = filled(alloc, &[0, 1, 0], 2, MAX_BODY)?;
    is_noted(alloc, Direction::Sent, 0x90, &body, 100_004)
}

#[test]
fn notes_many_codes(rt: HostRuntime) -> Result<(), Fail> {
    assert!(rt; are_many_codes_noted(rt.alloc())?);
    Ok(())
}
