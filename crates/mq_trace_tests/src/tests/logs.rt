//! Logs, as their parts, their packets' bytes, and the lines that are expected of them.

use mq_trace::Refusal;
use std::alloc::{AllocError, Global};

/// A part of a log: bytes as they are, or a record.
#[derive(Clone, Copy)]
pub enum Part {
    Raw(&'static [u8]),
    Open,
    Sent(&'static [u8]),
    Recv(&'static [u8]),
    Close,
    Rest,
    Release(u8),
}

use Part::{Close, Open, Raw, Recv, Release, Rest, Sent};

/// Headers of a tested client and of a tested server, with releases.
pub const CLIENT: Part = Raw(b"MQTR\x01\x00\x01\x00");

pub const SERVER: Part = Raw(b"MQTR\x01\x01\x01\x00");

pub const CONNECT: &[u8] = b"\x10\x0d\x00\x04MQTT\x05\x02\x00\x3c\x00\x00\x00";

/// A CONNECT of MQTT 3.1.1.
pub const OLD_CONNECT: &[u8] = b"\x10\x0c\x00\x04MQTT\x04\x02\x00\x3c\x00\x00";

pub const CONNACK: &[u8] = b"\x20\x03\x00\x00\x00";

/// PUBLISH of QoS 1 under identifiers 1 and 0, and the first's first bytes and its last ones.
pub const PUBLISH: &[u8] = b"\x32\x07\x00\x01a\x00\x01\x00x";

pub const UNIDENTIFIED: &[u8] = b"\x32\x07\x00\x01a\x00\x00\x00x";

pub const BEGINNING: &[u8] = b"\x32\x07\x00\x01a";

pub const END: &[u8] = b"\x00\x01\x00x";

pub const PUBACK: &[u8] = b"\x40\x02\x00\x01";

/// PUBLISH of QoS 0.
pub const QUICK_PUBLISH: &[u8] = b"\x30\x05\x00\x01a\x00x";

/// After these bytes the direction can't be parsed.
pub const LOST: &[u8] = b"\x30\xff\xff\xff\xff";

/// The fixed header of a PUBLISH of the largest size, 268,435,460 bytes.
pub const LARGEST: &[u8] = b"\x30\xff\xff\xff\x7f";

/// A client's connection that the server answered, up to offset 42, and the lines on its events.
pub const ANSWERED: [Part; 4] = [CLIENT, Open, Sent(CONNECT), Recv(CONNACK)];

pub const ANSWERED_LINES: &str =
    "1 record 1 OPEN\n2 record 2 SENT Connect 15\n3 record 3 RECV Connack 5\n";

/// The parts of a log, after those of `ANSWERED` or alone; the lines on the events of these parts;
/// and its result.
pub struct Row {
    pub connack_seen: bool,
    pub parts: &'static [Part],
    pub lines: &'static str,
    pub answer: Result<(), Refusal>,
}

// Appends a record with this body to a log.
fn put_record(log: &mut Vec<u8>, kind: u8, body: &[u8]) -> Result<(), AllocError> {
    let [_, _, _, _, a, b, c, d] = body.len().to_be_bytes();
    log.extend_from_slice(&[kind, a, b, c, d])?;
    log.extend_from_slice(body)
}

// Appends a part to a log: in one record, or with each byte of SENT and RECV in a record of its
// own.
fn put(log: &mut Vec<u8>, part: Part, split: bool) -> Result<(), AllocError> {
    let (kind, body) = match part {
        Raw(bytes) => return log.extend_from_slice(bytes),
        Open => (1, &b""[..]),
        Sent(body) => (2, body),
        Recv(body) => (3, body),
        Close => (4, &b""[..]),
        Rest => (5, &b""[..]),
        Release(identifier) => return put_record(log, 6, &[0, identifier]),
    };
    if !split || body.is_empty() {
        return put_record(log, kind, body);
    }
    for byte in body {
        put_record(log, kind, &[*byte])?;
    }
    Ok(())
}

/// The log of these parts, after those of `ANSWERED` or alone.
pub fn log_of(
    alloc: Global,
    connack_seen: bool,
    parts: &[Part],
    split: bool,
) -> Result<Vec<u8>, AllocError> {
    let mut log = Vec::new(alloc);
    if connack_seen {
        for part in ANSWERED {
            put(&mut log, part, split)?;
        }
    }
    for part in parts {
        put(&mut log, *part, split)?;
    }
    Ok(log)
}

/// The log of these parts, then one record in which the tested end sent this packet so many times,
/// and then those parts.
pub fn log_with_many(
    alloc: Global,
    before: &[Part],
    packet: &[u8],
    times: usize,
    after: &[Part],
) -> Result<Vec<u8>, AllocError> {
    let mut body = Vec::new(alloc);
    for _ in 0..times {
        body.extend_from_slice(packet)?;
    }
    let mut log = log_of(alloc, false, before, false)?;
    put_record(&mut log, 2, body.as_slice())?;
    for part in after {
        put(&mut log, *part, false)?;
    }
    Ok(log)
}

/// A connection that the server answered, and a packet of this size that the client sent: these
/// bytes and then `x`, in records that are as long as may be.
pub fn large_log(alloc: Global, begin: &[u8], size: usize) -> Result<Vec<u8>, AllocError> {
    let mut packet = Vec::new(alloc);
    packet.extend_from_slice(begin)?;
    packet.resize(size, b'x')?;
    let mut log = log_of(alloc, true, &[], false)?;
    for body in packet.chunks(1_048_576) {
        put_record(&mut log, 2, body)?;
    }
    Ok(log)
}
