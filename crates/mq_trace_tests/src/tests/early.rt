//! Events before the CONNACK of their connection: 4,096 may come, the OPEN counted.

use super::emission::{LIMIT, traced};
use super::logs::Part::{Close, Open, Recv, Release, Rest, Sent};
use super::logs::{
    CLIENT, CONNACK, CONNECT, LOST, PUBACK, PUBLISH, Part, QUICK_PUBLISH, SERVER, log_of,
    log_with_many,
};
use mq_trace::Refusal::{self, TooManyEarly};
use std::alloc::Global;
use std::test::Fail;

/// A client's connection with its CONNECT, up to offset 32.
const ASKED: &[Part] = &[CLIENT, Open, Sent(CONNECT)];

/// A server's connection with its CONNECT, up to offset 32.
const ASKED_SERVER: &[Part] = &[SERVER, Open, Recv(CONNECT)];

/// A CONNACK that refuses the connection, and one that breaks a rule.
const NOT_AUTHORIZED: &[u8] = b"\x20\x03\x00\x87\x00";

const BROKEN_CONNACK: &[u8] = b"\x20\x03\x02\x00\x00";

/// A PUBLISH whose Topic Name has a wildcard.
const BROKEN_PUBLISH: &[u8] = b"\x30\x05\x00\x01#\x00x";

/// Logs of 4,096 events on a connection, up to offset 28,695, and what follows.
static FULL: [(&[Part], &[Part], u32, Result<(), Refusal>); 14] = [
    (ASKED, &[], 4096, Ok(())),
    (ASKED, &[Recv(CONNACK)], 4097, Ok(())),
    (ASKED, &[Recv(NOT_AUTHORIZED)], 4097, Ok(())),
    (ASKED, &[Recv(CONNACK), Sent(PUBLISH), Rest], 4099, Ok(())),
    (ASKED, &[Close], 4097, Ok(())),
    // Between connections nothing is early, and each one is counted anew.
    (
        ASKED,
        &[Close, Release(1), Open, Sent(PUBLISH), Rest],
        4101,
        Ok(()),
    ),
    (
        ASKED,
        &[Sent(QUICK_PUBLISH)],
        4096,
        Err(TooManyEarly(28707)),
    ),
    (ASKED, &[Recv(PUBACK)], 4096, Err(TooManyEarly(28704))),
    (ASKED, &[Sent(LOST)], 4096, Err(TooManyEarly(28705))),
    (ASKED, &[Rest, Close], 4096, Err(TooManyEarly(28700))),
    (ASKED, &[Release(1)], 4096, Err(TooManyEarly(28702))),
    // Only a CONNACK from the server counts, and only if it breaks no rule.
    (ASKED, &[Sent(CONNACK)], 4096, Err(TooManyEarly(28705))),
    (
        ASKED,
        &[Recv(BROKEN_CONNACK)],
        4096,
        Err(TooManyEarly(28705)),
    ),
    (ASKED_SERVER, &[Sent(CONNACK)], 4097, Ok(())),
];

/// Logs in which the tested end sent a packet many times without a CONNACK from the server: the
/// parts before it, the packet, how many times, how many events are emitted, and the result.
type Many = (
    &'static [Part],
    &'static [u8],
    usize,
    u32,
    Result<(), Refusal>,
);

static MANY: [Many; 5] = [
    (ASKED, QUICK_PUBLISH, 4095, 4096, Err(TooManyEarly(28702))),
    (ASKED, BROKEN_PUBLISH, 4095, 4096, Err(TooManyEarly(28702))),
    (
        &[CLIENT, Open, Sent(CONNECT), Sent(CONNACK)],
        QUICK_PUBLISH,
        4094,
        4096,
        Err(TooManyEarly(28705)),
    ),
    // Each connection needs its own CONNACK, and is counted from its OPEN.
    (
        &[CLIENT, Open, Recv(CONNACK), Close, Open],
        QUICK_PUBLISH,
        4095,
        4099,
        Ok(()),
    ),
    (
        &[CLIENT, Open, Recv(CONNACK), Close, Open],
        QUICK_PUBLISH,
        4096,
        4099,
        Err(TooManyEarly(28709)),
    ),
];

/// Packets that may come before the CONNACK, in each direction, though most of them need a session.
const PACKETS: [&[u8]; 10] = [
    PUBLISH,
    QUICK_PUBLISH,
    PUBACK,
    b"\x50\x02\x00\x01",
    b"\x62\x02\x00\x01",
    b"\x70\x02\x00\x01",
    b"\x82\x07\x00\x01\x00\x00\x01a\x00",
    b"\x90\x04\x00\x01\x00\x00",
    b"\xa2\x06\x00\x01\x00\x00\x01a",
    b"\xb0\x04\x00\x01\x00\x00",
];

// The first size of pieces in which a log doesn't give so many events and this result.
fn other_cutting(
    alloc: Global,
    log: &[u8],
    count: u32,
    answer: Result<(), Refusal>,
) -> Option<usize> {
    for size in [usize::MAX, 1, 8192] {
        let (ended, emitted) = traced(alloc, LIMIT, log, size, true);
        if ended != Some(answer) || emitted.count != count {
            return Some(size);
        }
    }
    None
}

// The same of a log in which the packet is sent so many times.
fn other_cutting_of(
    alloc: Global,
    (before, after): (&[Part], &[Part]),
    packet: &[u8],
    times: usize,
    count: u32,
    answer: Result<(), Refusal>,
) -> Result<Option<usize>, Fail> {
    let log = log_with_many(alloc, before, packet, times, after)?;
    Ok(other_cutting(alloc, log.as_slice(), count, answer))
}

#[test]
fn goes_on_after_as_many_as_may_come(rt: HostRuntime) -> Result<(), Fail> {
    for (before, after, count, answer) in &FULL {
        let parts = (*before, *after);
        let other = other_cutting_of(rt.alloc(), parts, QUICK_PUBLISH, 4094, *count, *answer)?;
        assert_eq!(rt; other, None, "{count} events");
    }
    Ok(())
}

#[test]
fn refuses_one_too_many(rt: HostRuntime) -> Result<(), Fail> {
    for (before, packet, times, count, answer) in &MANY {
        let parts: (&[Part], &[Part]) = (*before, &[]);
        let other = other_cutting_of(rt.alloc(), parts, packet, *times, *count, *answer)?;
        assert_eq!(rt; other, None, "{times} times, {count} events");
    }
    Ok(())
}

// The same of a connection with this part and no CONNACK, and then a RELEASE.
fn other_cutting_after(alloc: Global, part: Part) -> Result<Option<usize>, Fail> {
    let log = log_of(alloc, false, &[CLIENT, Open, part, Release(1)], false)?;
    Ok(other_cutting(alloc, log.as_slice(), 3, Ok(())))
}

#[test]
fn lets_packets_come_before_the_connack(rt: HostRuntime) -> Result<(), Fail> {
    for packet in PACKETS {
        assert_eq!(rt;
            other_cutting_after(rt.alloc(), Sent(packet))?,
            None,
            "{packet:?}"
        );
        assert_eq!(rt;
            other_cutting_after(rt.alloc(), Recv(packet))?,
            None,
            "{packet:?}"
        );
    }
    Ok(())
}
