//! Each packet, cut short at each of its bytes and with each of them changed: `decode` returns a
//! packet that is written and read as itself, or a fault whose offset is in the packet.

use super::harness::{MAX_BODY, whole, written};
use super::packets::PACKETS;
use mq_packet::*;
use std::alloc::Global;
use std::test::Fail;

// What one byte is changed to.
const VALUES: [u8; 4] = [0x00, 0x7f, 0x80, 0xff];

// The frame at the front of the bytes: its first byte, its body, and where it ends.
fn frame_in(bytes: &[u8]) -> Option<(u8, &[u8], usize)> {
    match cut(bytes) {
        Cut::Frame {
            first,
            body_start,
            body_end,
        } => bytes
            .get(body_start..body_end)
            .map(|body| (first, body, body_end)),
        _ => None,
    }
}

// What this body is decoded as, if it isn't too long for a test.
fn decoded(first: u8, body: &[u8]) -> Option<Result<Packet<'_>, DecodeFault>> {
    if body.len() <= MAX_BODY {
        Some(decode(first, body))
    } else {
        None
    }
}

// Whether the body is one of a packet of this type that is written as these bytes.
fn is_written_again(
    alloc: Global,
    (first, body): (u8, &[u8]),
    kind: PacketType,
    bytes: &[u8],
) -> Result<bool, Fail> {
    match decoded(first, body) {
        Some(Ok(packet)) => Ok(
            packet.kind() == kind && written(alloc, &packet)?.as_slice() == bytes,
        ),
        _ => Ok(false),
    }
}

// Whether the packet is written as bytes that are a packet of its type, which is written as the
// same bytes.
fn comes_back(alloc: Global, packet: &Packet<'_>) -> Result<bool, Fail> {
    let bytes = written(alloc, packet)?;
    match frame_in(&bytes) {
        Some((first, body, end)) if end == bytes.len() => is_written_again(
            alloc,
            (first, body),
            packet.kind(),
            &bytes,
        ),
        _ => Ok(false),
    }
}

// Whether that holds of the packet with this body, or the fault is in the packet, which ends there.
fn body_decodes_well(alloc: Global, first: u8, body: &[u8], end: usize) -> Result<bool, Fail> {
    match decoded(first, body) {
        Some(Ok(packet)) => comes_back(alloc, &packet),
        Some(Err(DecodeFault::Broken(fault))) => Ok(fault.at as usize <= end),
        Some(Err(DecodeFault::OtherVersion(version))) => Ok(first == 0x10 && version != 5),
        None => Ok(false),
    }
}

// Whether that holds of the packet at the front of the bytes.
fn decodes_well(alloc: Global, bytes: &[u8]) -> Result<bool, Fail> {
    match frame_in(bytes) {
        Some((first, body, end)) => body_decodes_well(alloc, first, body, end),
        None => Ok(true),
    }
}

// Whether that holds of the packet's beginnings, and of the packet.
fn beginnings_decode_well(alloc: Global, first: u8, body: &[u8]) -> Result<bool, Fail> {
    for size in 0..body.len() {
        if !decodes_well(alloc, &whole(alloc, first, &body[..size])?)? {
            return Ok(false);
        }
    }
    decodes_well(alloc, &whole(alloc, first, body)?)
}

// Whether that holds of these bytes where the one at this index has another value.
fn change_decodes_well(alloc: Global, mut bytes: Vec<u8>, at: usize) -> Result<bool, Fail> {
    for value in VALUES {
        match bytes.get_mut(at) {
            Some(byte) => *byte = value,
            None => return Ok(false),
        }
        if !decodes_well(alloc, &bytes)? {
            return Ok(false);
        }
    }
    Ok(true)
}

// Whether that holds of the packet with any one byte changed.
fn changes_decode_well(alloc: Global, first: u8, body: &[u8]) -> Result<bool, Fail> {
    for at in 0..whole(alloc, first, body)?.len() {
        if !change_decodes_well(alloc, whole(alloc, first, body)?, at)? {
            return Ok(false);
        }
    }
    Ok(true)
}

// Whether that holds of the packet, its beginnings, and with any one byte changed.
fn all_decode_well(alloc: Global, first: u8, body: &[u8]) -> Result<bool, Fail> {
    Ok(beginnings_decode_well(alloc, first, body)? && changes_decode_well(alloc, first, body)?)
}

#[test]
fn all_packets(rt: HostRuntime) -> Result<(), Fail> {
    for (name, (first, body)) in &PACKETS {
        let is_well = all_decode_well(rt.alloc(), *first, body)?;
        assert!(rt; is_well, "{name}");
    }
    Ok(())
}
