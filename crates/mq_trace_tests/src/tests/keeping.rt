//! What a tracer keeps: only unfinished packets, none over its limit, and a sink's refusal for
//! ever.

use super::emission::{LIMIT, Lines, other_cutting, trace, traced};
use super::logs::Part::{Open, Raw, Recv, Sent};
use super::logs::{ANSWERED_LINES, CLIENT, CONNACK, LARGEST, PUBLISH, Part, large_log, log_of};
use super::sessions::SESSIONS;
use mq_trace::{Refusal, Tracer};
use std::alloc::Global;
use std::test::Fail;

/// A limit, the first lines that a log gives under it, the others, and the log's result.
type Limited = (u32, &'static str, &'static str, Result<(), Refusal>);

// The first of these limits under which the log gives something else.
fn first_other_limit(alloc: Global, log: &[u8], rows: &[Limited]) -> Option<u32> {
    for (limit, begin, lines, answer) in rows {
        if other_cutting(alloc, *limit, log, true, begin, lines, *answer).is_some() {
            return Some(*limit);
        }
    }
    None
}

// The same of the log of these parts, after those of `ANSWERED` or alone, and then these bytes.
fn first_other_limit_of(
    alloc: Global,
    connack_seen: bool,
    parts: &[Part],
    rest: &[u8],
    rows: &[Limited],
) -> Result<Option<u32>, Fail> {
    let mut log = log_of(alloc, connack_seen, parts, false)?;
    log.extend_from_slice(rest)?;
    Ok(first_other_limit(alloc, log.as_slice(), rows))
}

// A packet may have as many bytes as the limit, and one more is refused at the last byte of its
// fixed header.
const OF_LARGEST: [Limited; 4] = [
    (268_435_460, ANSWERED_LINES, "", Ok(())),
    (268_435_459, ANSWERED_LINES, "", Err(Refusal::TooLarge(52))),
    (15, ANSWERED_LINES, "", Err(Refusal::TooLarge(52))),
    (14, "1 record 1 OPEN\n", "", Err(Refusal::TooLarge(19))),
];

#[test]
fn keeps_to_its_limit(rt: HostRuntime) -> Result<(), Fail> {
    let other = first_other_limit_of(rt.alloc(), true, &[Sent(LARGEST)], b"", &OF_LARGEST)?;
    assert_eq!(rt; other, None);
    Ok(())
}

const OF_MIDDLE: [Limited; 2] = [
    (203, ANSWERED_LINES, "4 record 4 SENT Publish 203\n", Ok(())),
    (202, ANSWERED_LINES, "", Err(Refusal::TooLarge(50))),
];

// A record with the beginning of a packet of 203 bytes.
const MIDDLE: Part = Raw(b"\x02\x00\x00\x00\xcb\x30\xc8\x01\x00\x01a\x00");

#[test]
fn keeps_to_a_limit_of_two_bytes(rt: HostRuntime) -> Result<(), Fail> {
    let other = first_other_limit_of(rt.alloc(), true, &[MIDDLE], &[b'x'; 196], &OF_MIDDLE)?;
    assert_eq!(rt; other, None);
    Ok(())
}

const TWO_LINES: &str = "1 record 1 OPEN\n2 record 2 RECV Connack 5\n";

const OF_SMALL: [Limited; 3] = [
    (9, TWO_LINES, "3 record 3 RECV Publish 9\n", Ok(())),
    (8, TWO_LINES, "", Err(Refusal::TooLarge(29))),
    (5, TWO_LINES, "", Err(Refusal::TooLarge(29))),
];

#[test]
fn keeps_to_a_small_limit(rt: HostRuntime) -> Result<(), Fail> {
    let parts = [CLIENT, Open, Recv(CONNACK), Recv(PUBLISH)];
    let other = first_other_limit_of(rt.alloc(), false, &parts, b"", &OF_SMALL)?;
    assert_eq!(rt; other, None);
    Ok(())
}

// Whether a tracer answers this alone: to a record, to no bytes, and to the log's end.
fn answers_alone(tracer: &mut Tracer, emitted: &mut Lines, answer: Result<(), Refusal>) -> bool {
    for _ in 0..3 {
        if tracer.feed(b"\x04\x00\x00\x00\x00", emitted) != answer
            || tracer.feed(b"", emitted) != answer
            || tracer.finish() != answer
        {
            return false;
        }
    }
    true
}

// How a log ends whose sink has room for so many events, and how many the sink was given, also by
// what is fed later; none if that doesn't end as the log did.
fn stopped(
    alloc: Global,
    log: &[u8],
    room: u32,
    size: usize,
) -> Option<(Result<(), Refusal>, u32)> {
    let mut tracer = Tracer::new(alloc, LIMIT);
    let mut emitted = Lines::new(alloc, true, room);
    let ended = trace(&mut tracer, LIMIT, log, size, &mut emitted)?;
    if answers_alone(&mut tracer, &mut emitted, ended) {
        Some((ended, emitted.count))
    } else {
        None
    }
}

// The first size of pieces in which a log isn't refused there, after so many events.
fn other_stop(alloc: Global, log: &[u8], room: u32, at: u64, count: u32) -> Option<usize> {
    for size in [usize::MAX, 1, 7, 8192] {
        if stopped(alloc, log, room, size) != Some((Err(Refusal::Memory(at)), count)) {
            return Some(size);
        }
    }
    None
}

/// For how many events a sink has room, the byte of a log of seven events that completes the first
/// for which it has none, and how many the sink is given.
const STOPS: [(u32, u64, u32); 7] = [
    (0, 12, 1),
    (1, 32, 2),
    (2, 42, 3),
    (3, 56, 4),
    (4, 65, 5),
    (5, 70, 6),
    (6, 75, 7),
];

// What a sink refuses is refused for ever, at the byte that completed the event, and the sink isn't
// called again: the first room with which it isn't so.
fn first_other_stop(alloc: Global) -> Result<Option<u32>, Fail> {
    let log = log_of(alloc, true, SESSIONS[1].parts, false)?;
    for (room, at, count) in &STOPS {
        if other_stop(alloc, log.as_slice(), *room, *at, *count).is_some() {
            return Ok(Some(*room));
        }
    }
    Ok(None)
}

#[test]
fn stops_where_its_sink_refuses(rt: HostRuntime) -> Result<(), Fail> {
    assert_eq!(rt; first_other_stop(rt.alloc())?, None);
    Ok(())
}

/// What follows the parts of `ANSWERED`, and how many bytes are kept after each piece of it.
static KEPT: [(&[u8], usize); 8] = [
    (b"\x02\x00\x00\x00\x09\x32\x07\x00\x01a", 5),
    (b"\x00\x01\x00", 8),
    (b"x\x03\x00\x00\x00\x02\x40", 1),
    (b"\x02\x02\x00\x00\x00\x05\x32\x07\x00\x01a", 7),
    (b"\x03\x00\x00\x00\x02\x00\x01", 5),
    (b"\x05\x00\x00\x00\x00\x02\x00\x00\x00\x04\x00\x01", 7),
    (b"\x00x", 0),
    (b"\x03\x00\x00\x00\x08\x30\x80\x00\x30\x07\x00\x00\x00", 0),
];

// Whether a tracer takes in a piece, and then keeps so many bytes.
fn keeps(tracer: &mut Tracer, emitted: &mut Lines, piece: &[u8], pending: usize) -> bool {
    tracer.feed(piece, emitted) == Ok(()) && tracer.pending() == pending
}

// The first of the pieces after which a tracer keeps something else.
fn first_other_kept(tracer: &mut Tracer, emitted: &mut Lines) -> Option<&'static [u8]> {
    for (piece, pending) in &KEPT {
        if !keeps(tracer, emitted, piece, *pending) {
            return Some(piece);
        }
    }
    None
}

// Whether a tracer takes in a log's beginning and then the pieces, keeps what they say, and emits
// eight events.
fn keeps_alone(tracer: &mut Tracer, emitted: &mut Lines, begin: &[u8]) -> bool {
    keeps(tracer, emitted, begin, 0)
        && first_other_kept(tracer, emitted).is_none()
        && tracer.finish() == Ok(())
        && emitted.count == 8
}

// Whether that holds of a new tracer.
fn keeps_unfinished_alone(alloc: Global) -> Result<bool, Fail> {
    let begin = log_of(alloc, true, &[], false)?;
    let mut tracer = Tracer::new(alloc, LIMIT);
    let mut emitted = Lines::new(alloc, true, u32::MAX);
    Ok(keeps_alone(&mut tracer, &mut emitted, begin.as_slice()))
}

#[test]
fn keeps_unfinished_packets_alone(rt: HostRuntime) -> Result<(), Fail> {
    assert!(rt; keeps_unfinished_alone(rt.alloc())?);
    Ok(())
}

/// What follows the parts of `ANSWERED`, and what the log's end would leave unfinished after each
/// piece of it: of what was sent, and of what was received.
static LEFT: [(&[u8], &[u8], &[u8]); 5] = [
    (b"\x02\x00\x00\x00\x03\x32\x07\x00", b"\x32\x07\x00", b""),
    (b"\x03\x00\x00\x00\x01\x40", b"\x32\x07\x00", b"\x40"),
    (b"\x03\x00\x00\x00\x03\x02\x00\x01", b"\x32\x07\x00", b""),
    (b"\x04\x00\x00\x00\x00", b"", b""),
    (b"\x01\x00\x00\x00\x00", b"", b""),
];

// Whether a tracer takes in a piece, and the end would then leave this unfinished.
fn leaves(
    tracer: &mut Tracer,
    emitted: &mut Lines,
    piece: &[u8],
    sent: &[u8],
    received: &[u8],
) -> bool {
    if tracer.feed(piece, emitted).is_err() {
        return false;
    }
    let unfinished = tracer.unfinished();
    unfinished.sent == sent && unfinished.received == received
}

// The first of the pieces after which the end would leave something else unfinished.
fn first_other_left(tracer: &mut Tracer, emitted: &mut Lines) -> Option<&'static [u8]> {
    for (piece, sent, received) in &LEFT {
        if !leaves(tracer, emitted, piece, sent, received) {
            return Some(piece);
        }
    }
    None
}

// What the log's end leaves unfinished is of the connection that is open alone.
fn leaves_unfinished(alloc: Global) -> Result<bool, Fail> {
    let begin = log_of(alloc, true, &[], false)?;
    let mut tracer = Tracer::new(alloc, LIMIT);
    let mut emitted = Lines::new(alloc, true, u32::MAX);
    let has_begun = leaves(&mut tracer, &mut emitted, begin.as_slice(), b"", b"");
    Ok(has_begun && first_other_left(&mut tracer, &mut emitted).is_none())
}

#[test]
fn says_what_the_end_leaves_unfinished(rt: HostRuntime) -> Result<(), Fail> {
    assert!(rt; leaves_unfinished(rt.alloc())?);
    Ok(())
}

/// The first bytes of a packet, its size, and the line on it.
const LARGE: [(&[u8], usize, &str); 2] = [
    (
        b"\x30\x84\x80\x80\x01\x00\x01a\x00",
        2_097_161,
        "4 record 6 SENT Publish 2097161\n",
    ),
    (
        b"\x30\xfb\xff\xff\x07\x00\x01a\x00",
        16_777_216,
        "4 record 19 SENT Publish 16777216\n",
    ),
];

// The first size of pieces in which a log doesn't give just this line after those of `ANSWERED`.
fn other_piece(alloc: Global, log: &[u8], line: &str) -> Option<usize> {
    for piece in [usize::MAX, 1000, 8192] {
        let (ended, emitted) = traced(alloc, LIMIT, log, piece, true);
        let text = emitted.text.as_str();
        if ended != Some(Ok(())) || text.strip_prefix(ANSWERED_LINES) != Some(line) {
            return Some(piece);
        }
    }
    None
}

// The same of the log of a packet with these first bytes and of this size.
fn other_piece_of(
    alloc: Global,
    begin: &[u8],
    size: usize,
    line: &str,
) -> Result<Option<usize>, Fail> {
    let log = large_log(alloc, begin, size)?;
    Ok(other_piece(alloc, log.as_slice(), line))
}

// A packet that is cut over several records is kept until its last byte, and then emitted, up to
// the limit's size.
#[test]
fn keeps_large_packets(rt: HostRuntime) -> Result<(), Fail> {
    for (begin, size, line) in &LARGE {
        let other = other_piece_of(rt.alloc(), begin, *size, line)?;
        assert_eq!(rt; other, None, "{size} bytes");
    }
    Ok(())
}

// Whether a log of so many PINGREQs gives an event for each, and this line as its last.
fn emits_each(alloc: Global, times: u32, line: &str) -> Result<bool, Fail> {
    let mut log = log_of(alloc, true, &[], false)?;
    for _ in 0..times {
        log.extend_from_slice(b"\x02\x00\x00\x00\x02\xc0\x00")?;
    }
    let (ended, emitted) = traced(alloc, LIMIT, log.as_slice(), 8192, true);
    let is_counted = emitted.count.checked_sub(times) == Some(3);
    Ok(ended == Some(Ok(())) && is_counted && emitted.text.as_str().ends_with(line))
}

// A log with more than 65,536 events isn't refused.
#[test]
fn counts_many_events(rt: HostRuntime) -> Result<(), Fail> {
    let line = "\n70003 record 70003 SENT Pingreq 2\n";
    assert!(rt; emits_each(rt.alloc(), 70_000, line)?);
    Ok(())
}
