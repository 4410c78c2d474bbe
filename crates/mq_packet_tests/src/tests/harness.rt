//! What the tests share: packets and property lists from their fields, and the bytes of a packet.

use mq_packet::*;
use mq_props::{Place, Prop, Props, PropsBuf};
use mq_wire::put_varint;
use std::alloc::Global;
use std::test::Fail;

/// The most bytes that a body has in the tests.
pub const MAX_BODY: usize = 1_000;

/// The list of these properties.
pub fn list_of(alloc: Global, place: Place, props: &[Prop<'_>]) -> Result<PropsBuf, Fail> {
    let mut list = PropsBuf::new(alloc, place);
    for prop in props {
        list.push(prop)?;
    }
    Ok(list)
}

/// An acknowledgement that a caller makes.
pub fn acknowledgement<'a>(
    identifier: u16,
    code: u8,
    properties: Props<'a>,
) -> Acknowledgement<'a> {
    Acknowledgement {
        identifier,
        code,
        properties,
        read_len: None,
    }
}

/// A DISCONNECT or AUTH that a caller makes.
pub fn reason_packet<'a>(code: u8, properties: Props<'a>) -> ReasonPacket<'a> {
    ReasonPacket {
        code,
        properties,
        read_len: None,
    }
}

/// A SUBSCRIBE or UNSUBSCRIBE.
pub fn request<'a>(identifier: u16, properties: Props<'a>, filters: Filters<'a>) -> Request<'a> {
    Request {
        identifier,
        properties,
        filters,
    }
}

/// A SUBACK or UNSUBACK.
pub fn answer<'a>(identifier: u16, properties: Props<'a>, codes: &'a [u8]) -> Answer<'a> {
    Answer {
        identifier,
        properties,
        codes: Codes::of(codes),
    }
}

/// The packet with this first byte and body.
pub fn whole(alloc: Global, first: u8, body: &[u8]) -> Result<Vec<u8>, Fail> {
    let mut bytes = Vec::new(alloc);
    bytes.push(first)?;
    put_varint(&mut bytes, u32::try_from(body.len())?)?;
    bytes.extend_from_slice(body)?;
    Ok(bytes)
}

/// The packet's bytes, as it is written; none if no bytes spell it.
pub fn written(alloc: Global, packet: &Packet<'_>) -> Result<Vec<u8>, Fail> {
    let mut out = Vec::new(alloc);
    if is_valid(packet) {
        encode(packet, &mut out)?;
    }
    Ok(out)
}

/// Whether the packet is written as these bytes, after what the vector had.
pub fn is_written_as(alloc: Global, packet: &Packet<'_>, bytes: &[u8]) -> Result<bool, Fail> {
    let before: &[u8] = &[7, 8];
    let mut out = Vec::new(alloc);
    out.extend_from_slice(before)?;
    if is_valid(packet) {
        encode(packet, &mut out)?;
    }
    Ok(out.strip_prefix(before) == Some(bytes))
}

/// The same, and its size is their number.
pub fn is_written_in_size(alloc: Global, packet: &Packet<'_>, bytes: &[u8]) -> Result<bool, Fail> {
    let size = Some(u32::try_from(bytes.len())?);
    Ok(is_written_as(alloc, packet, bytes)? && packet.size() == size)
}
