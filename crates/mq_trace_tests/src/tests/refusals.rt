//! Logs that are refused, and at which byte.

use super::emission::{LIMIT, other_cutting, other_cutting_of};
use super::logs::Part::{Close, Open, Raw, Recv, Rest, Sent};
use super::logs::{BEGINNING, CLIENT, CONNACK, CONNECT, END, LARGEST, OLD_CONNECT, Part};
use mq_trace::Refusal;
use mq_trace::Refusal::{
    Cut, Flags, Header, Kind, Length, Nested, NotOpen, OtherVersion, ReleaseUnrecorded, Role,
    TooLarge, Version,
};
use std::test::Fail;

/// The parts of a log, the lines on its events, and why it is refused.
type Refused = (&'static [Part], &'static str, Refusal);

static REFUSALS: [Refused; 16] = [
    (&[CLIENT, Raw(b"\x00")], "", Kind(8)),
    (
        &[CLIENT, Open, Raw(b"\x07\x00\x00\x00\x00")],
        "1 record 1 OPEN\n",
        Kind(13),
    ),
    (&[CLIENT, Open, Open], "1 record 1 OPEN\n", Nested(13)),
    (&[CLIENT, Sent(b"\xc0\x00")], "", NotOpen(8)),
    (&[CLIENT, Recv(b"")], "", NotOpen(8)),
    (&[CLIENT, Close], "", NotOpen(8)),
    (
        &[CLIENT, Open, Close, Rest],
        "1 record 1 OPEN\n2 record 2 CLOSE\n",
        NotOpen(18),
    ),
    // Without releases a RELEASE is refused before anything else of it is looked at.
    (
        &[Raw(b"MQTR\x01\x00\x00\x00\x06\x00\x00\x00\x03")],
        "",
        ReleaseUnrecorded(8),
    ),
    (&[CLIENT, Raw(b"\x01\x00\x00\x00\x01\x00")], "", Length(12)),
    (
        &[CLIENT, Open, Raw(b"\x05\x01\x00\x00\x00\x00")],
        "1 record 1 OPEN\n",
        Length(17),
    ),
    (
        &[CLIENT, Open, Raw(b"\x02\x00\x10\x00\x01")],
        "1 record 1 OPEN\n",
        Length(17),
    ),
    (&[CLIENT, Raw(b"\x06\x00\x00\x00\x01\x00")], "", Length(12)),
    (
        &[CLIENT, Raw(b"\x06\x00\x00\x00\x03\x00\x01\x00")],
        "",
        Length(12),
    ),
    (
        &[CLIENT, Open, Sent(OLD_CONNECT)],
        "1 record 1 OPEN\n",
        OtherVersion(31),
    ),
    // A CONNACK may come within a packet of the other direction.
    (
        &[
            CLIENT,
            Open,
            Sent(CONNECT),
            Sent(BEGINNING),
            Recv(CONNACK),
            Sent(END),
            Open,
        ],
        "1 record 1 OPEN\n2 record 2 SENT Connect 15\n3 record 4 RECV Connack 5\n4 record 5 SENT Publish 9\n",
        Nested(62),
    ),
    // A packet that is too large is refused before its body comes.
    (
        &[CLIENT, Open, Sent(LARGEST)],
        "1 record 1 OPEN\n",
        TooLarge(22),
    ),
];

/// Logs that are refused after the parts of `ANSWERED`: what follows these, the lines, and the
/// refusal.
static LATER_REFUSALS: [Refused; 2] = [
    // A log that ends in a RELEASE, between its two bytes.
    (&[Raw(b"\x06\x00\x00\x00\x02\x00")], "", Cut(49)),
    (&[Sent(LARGEST)], "", TooLarge(52)),
];

#[test]
fn reports_refused_logs(rt: HostRuntime) -> Result<(), Fail> {
    for (parts, lines, refusal) in &REFUSALS {
        let other = other_cutting_of(rt.alloc(), false, parts, lines, Err(*refusal))?;
        assert_eq!(rt; other, None, "{refusal}");
    }
    Ok(())
}

#[test]
fn reports_logs_refused_later(rt: HostRuntime) -> Result<(), Fail> {
    for (parts, lines, refusal) in &LATER_REFUSALS {
        let other = other_cutting_of(rt.alloc(), true, parts, lines, Err(*refusal))?;
        assert_eq!(rt; other, None, "{refusal}");
    }
    Ok(())
}

/// Headers in which one byte is wrong, and their refusals.
static HEADERS: [(&[u8], Refusal); 8] = [
    (b"\x03QTR\x01\x01\x00\x00", Header(0)),
    (b"M\x03TR\x01\x01\x00\x00", Header(1)),
    (b"MQ\x03R\x01\x01\x00\x00", Header(2)),
    (b"MQT\x03\x01\x01\x00\x00", Header(3)),
    (b"MQTR\x03\x01\x00\x00", Version(4)),
    (b"MQTR\x01\x03\x00\x00", Role(5)),
    (b"MQTR\x01\x01\x03\x00", Flags(6)),
    (b"MQTR\x01\x01\x00\x03", Flags(7)),
];

#[test]
fn refuses_each_wrong_byte_of_a_header(rt: HostRuntime) {
    for (header, refusal) in &HEADERS {
        let other = other_cutting(rt.alloc(), LIMIT, header, true, "", "", Err(*refusal));
        assert_eq!(rt; other, None, "{refusal}");
    }
}
