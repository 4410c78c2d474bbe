//! Where the packet at the front of a stream ends.

use mq_packet::{Cut, FixedHeader, cut, fixed_header};

// A PUBACK, and a PINGREQ.
const PUBACK: Cut = Cut::Frame {
    first: 0x40,
    body_start: 2,
    body_end: 4,
};

const PINGREQ: Cut = Cut::Frame {
    first: 0xc0,
    body_start: 2,
    body_end: 2,
};

const CUTS: [(&[u8], Cut); 8] = [
    (&[], Cut::Need),
    (&[0x40], Cut::Need),
    (&[0x40, 2, 0], Cut::Need),
    (&[0x40, 2, 0, 1], PUBACK),
    (&[0xc0, 0, 0x30], PINGREQ),
    (&[0x30, 0xff, 0xff, 0xff, 0x7f], Cut::Need),
    (&[0x30, 0xff, 0xff, 0xff, 0xff], Cut::Lost),
    (&[0x30, 0x80, 0], Cut::Lost),
];

#[test]
fn cuts_frames(rt: HostRuntime) {
    for (bytes, wanted) in &CUTS {
        assert!(rt; cut(bytes) == *wanted, "{bytes:?}");
    }
}

const SMALLEST: FixedHeader = FixedHeader::Whole { length: 2, size: 2 };

const LARGEST: FixedHeader = FixedHeader::Whole {
    length: 5,
    size: 268_435_460,
};

const HEADERS: [(&[u8], FixedHeader); 5] = [
    (&[0x30], FixedHeader::Short),
    (&[0x30, 0xff, 0xff, 0xff], FixedHeader::Short),
    (&[0x30, 0xff, 0xff, 0xff, 0x7f], LARGEST),
    (&[0x30, 0xff, 0xff, 0xff, 0x80], FixedHeader::Lost),
    (&[0xc0, 0], SMALLEST),
];

#[test]
fn sees_fixed_headers(rt: HostRuntime) {
    for (bytes, wanted) in &HEADERS {
        assert!(rt; fixed_header(bytes) == *wanted, "{bytes:?}");
    }
}
