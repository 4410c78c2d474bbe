use super::harness::MAX_BODY;
use mq_packet::*;
use std::test::Fail;

// The payload that the standard shows in its section 3.8.3: the filter `a/b` with Maximum QoS 1,
// and `c/d` with 2.
const EXAMPLE: [u8; 12] = [0, 3, b'a', b'/', b'b', 1, 0, 3, b'c', b'/', b'd', 2];

// Bytes that may be filters, with options or without; and how many they are then.
const FILTERS: [(&[u8], bool, Option<usize>); 24] = [
    (&[], true, None),
    (&[], false, None),
    (&[0, 1, b'a', 0], true, Some(1)),
    (&[0, 1, b'a'], false, Some(1)),
    (&EXAMPLE, true, Some(2)),
    (&[0, 1, b'a', 0, 1, b'b'], false, Some(2)),
    // the same filter twice
    (&[0, 1, b'a', 0, 1, b'a'], false, Some(2)),
    // options that are missing, or too many
    (&[0, 1, b'a'], true, None),
    (&[0, 1, b'a', 0, 0, 1, b'b'], true, None),
    (&[0, 1, b'a', 0], false, None),
    // misspelled filters
    (&[0], false, None),
    (&[0, 2, b'a'], false, None),
    (&[0, 1, 0xFF], false, None),
    (&[0, 1, 0], false, None),
    // invalid filters
    (&[0, 0], false, None),
    (&[0, 2, b'a', b'#'], false, None),
    (&[0, 1, b'a', 0, 2, b'+', b'b'], false, None),
    (&[0, 1, b'#', 0, 1, b'+'], false, Some(2)),
    // each bit of the options
    (&[0, 1, b'a', 0b0010_1110], true, Some(1)),
    (&[0, 1, b'a', 0b0001_1101], true, Some(1)),
    (&[0, 1, b'a', 0b0000_0011], true, None),
    (&[0, 1, b'a', 0b0011_0000], true, None),
    (&[0, 1, b'a', 0b0100_0000], true, None),
    (&[0, 1, b'a', 0b1000_0000], true, None),
];

#[test]
fn bytes_as_filters(rt: HostRuntime) {
    for (bytes, options, wanted) in &FILTERS {
        let filters = Filters::of(bytes, *options);
        assert_eq!(rt; filters.map(|f| f.iter().count()), *wanted, "{bytes:?}");
    }
}

// Whether the filters are these two, in this order.
fn are_both(filters: &Filters<'_>, first: Filter<'_>, second: Filter<'_>) -> bool {
    let mut iter = filters.iter();
    iter.next() == Some(first)
        && iter.next() == Some(second)
        && iter.next().is_none()
        && iter.next().is_none()
}

// A filter with its options.
fn asked(filter: &'static str, options: u8) -> Filter<'static> {
    Filter {
        filter,
        options: Some(options),
    }
}

// Whether those of the example are in order.
fn are_in_order(filters: &Filters<'_>) -> bool {
    filters.have_options()
        && filters.as_bytes() == EXAMPLE.as_slice()
        && are_both(filters, asked("a/b", 1), asked("c/d", 2))
}

#[test]
fn filters_in_order(rt: HostRuntime) {
    let filters = Filters::of(&EXAMPLE, true);
    assert!(rt; filters.is_some_and(|filters| are_in_order(&filters)));
}

// Whether the codes are these, in this order.
fn are_codes(bytes: &[u8], first: u8, second: u8, third: u8) -> bool {
    let codes = Codes::of(bytes);
    let mut iter = codes.iter();
    codes.as_bytes() == bytes
        && iter.next() == Some(first)
        && iter.next() == Some(second)
        && iter.next() == Some(third)
        && iter.next().is_none()
}

#[test]
fn codes_in_order(rt: HostRuntime) {
    assert!(rt; are_codes(&[2, 0x80, 0], 2, 0x80, 0));
}

// The first byte of a SUBSCRIBE, of an UNSUBSCRIBE, and of their answers.
const SUBSCRIBE: u8 = 0x82;

const UNSUBSCRIBE: u8 = 0xA2;

const SUBACK: u8 = 0x90;

const UNSUBACK: u8 = 0xB0;

// Where a packet breaks a rule, and which.
fn stopped(read: Result<Packet<'_>, DecodeFault>) -> Option<(u32, PacketRule)> {
    match read {
        Err(DecodeFault::Broken(fault)) => Some((fault.at, fault.rule)),
        _ => None,
    }
}

// Whether a body breaks this rule there, or none.
fn stops_at(first: u8, body: &[u8], wanted: Option<(u32, PacketRule)>) -> bool {
    body.len() <= MAX_BODY && stopped(decode(first, body)) == wanted
}

// Bodies of SUBSCRIBEs and UNSUBSCRIBEs, and where they break a rule.
const REQUESTS: [(&[u8], u8, Option<(u32, PacketRule)>); 11] = [
    (&[0, 10, 0, 0, 1, b'a', 1], SUBSCRIBE, None),
    (&[0, 10, 0, 0, 1, b'a'], UNSUBSCRIBE, None),
    (&[0, 10, 2, 0x0B, 5, 0, 1, b'a', 1], SUBSCRIBE, None),
    (
        &[0, 0, 0, 0, 1, b'a'],
        UNSUBSCRIBE,
        Some((2, PacketRule::W09)),
    ),
    (
        &[0, 10, 2, 0x0B, 5, 0, 1, b'a'],
        UNSUBSCRIBE,
        Some((5, PacketRule::W10)),
    ),
    (&[0, 10, 0], SUBSCRIBE, Some((5, PacketRule::W16))),
    (&[0, 10, 0], UNSUBSCRIBE, Some((5, PacketRule::W16))),
    (
        &[0, 10, 0, 0, 1, b'a', 1, 0, 1, b'#', 3],
        SUBSCRIBE,
        Some((12, PacketRule::W17)),
    ),
    (
        &[0, 10, 0, 0, 1, b'a', 1, 0, 0, 3],
        SUBSCRIBE,
        Some((9, PacketRule::W15)),
    ),
    (
        &[0, 10, 0, 0, 1, b'a'],
        SUBSCRIBE,
        Some((8, PacketRule::W06)),
    ),
    (
        &[0, 10, 0, 0, 1, b'a', 1],
        UNSUBSCRIBE,
        Some((8, PacketRule::W06)),
    ),
];

#[test]
fn requests(rt: HostRuntime) {
    for (body, first, wanted) in &REQUESTS {
        assert!(rt; stops_at(*first, body, *wanted), "{body:?}");
    }
}

// Bodies of their answers, and where they break a rule.
const ANSWERS: [(&[u8], u8, Option<(u32, PacketRule)>); 7] = [
    (&[0, 10, 0], SUBACK, None),
    (&[0, 10, 0], UNSUBACK, None),
    (&[0, 10, 0, 0, 1, 2, 0x80], SUBACK, None),
    (&[0, 10, 0, 0, 0x11, 0x8F], UNSUBACK, None),
    (&[0, 10, 0, 0, 0x11], SUBACK, Some((6, PacketRule::W13))),
    (&[0, 10, 0, 0, 1], UNSUBACK, Some((6, PacketRule::W13))),
    (&[0, 10], UNSUBACK, Some((4, PacketRule::W06))),
];

#[test]
fn answers(rt: HostRuntime) {
    for (body, first, wanted) in &ANSWERS {
        assert!(rt; stops_at(*first, body, *wanted), "{body:?}");
    }
}
