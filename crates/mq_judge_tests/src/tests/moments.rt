//! Logs of version 2, whose records have moments, as they are shown.
use mq_display::{Extent, show, show_faults, show_long};
use mq_harness::Pieces;
use mq_judge::{Choice, RunFault, judge_reader};
use mq_log::Refusal;
use std::alloc::Global;
use std::fmt::Write as _;
use std::io::Read;
use std::test::Fail;

// A client takes a Packet Identifier that is in use, and the connection breaks. The moments of the
// records are 0, 2^64 - 1, 9, 2^32, 10^19 and 10^9.
const LOG: &[u8] = b"MQTR\x02\x00\x01\x00\
    \x01\x00\x00\x00\x00\x00\x00\x00\x00\x00\x00\x00\x00\
    \x02\x00\x00\x00\x0f\xff\xff\xff\xff\xff\xff\xff\xff\x10\x0d\x00\x04MQTT\x05\x02\x00\x3c\x00\x00\x00\
    \x03\x00\x00\x00\x05\x00\x00\x00\x00\x00\x00\x00\x09\x20\x03\x00\x00\x00\
    \x02\x00\x00\x00\x12\x00\x00\x00\x01\x00\x00\x00\x00\x32\x07\x00\x01a\x00\x01\x00x\x32\x07\x00\x01a\x00\x01\x00x\
    \x05\x00\x00\x00\x00\x8a\xc7\x23\x04\x89\xe8\x00\x00\
    \x04\x00\x00\x00\x00\x00\x00\x00\x00\x3b\x9a\xca\x00";

const SHORT: &str = "1 record 1 moment 0 OPEN\n\
    2 record 2 moment 18446744073709551615 SENT CONNECT size 15\n\
    3 record 3 moment 9 RECV CONNACK size 5\n\
    4 record 4 moment 4294967296 SENT PUBLISH size 9 qos 1 dup 0 id 1\n\
    5 record 4 moment 4294967296 SENT PUBLISH size 9 qos 1 dup 0 id 1\n\
    6 record 5 moment 10000000000000000000 REST\n\
    7 record 6 moment 1000000000 CLOSE\n";

const LONG: &str = "1 record 1 moment 0 OPEN\n\
    2 record 2 moment 18446744073709551615 SENT CONNECT size 15 client \"\" clean-start 1 keep-alive 60\n\
    3 record 3 moment 9 RECV CONNACK size 5 code 0x00 session-present 0\n\
    4 record 4 moment 4294967296 SENT PUBLISH size 9 qos 1 dup 0 id 1 retain 0 topic \"a\" payload 1\n\
    5 record 4 moment 4294967296 SENT PUBLISH size 9 qos 1 dup 0 id 1 retain 0 topic \"a\" payload 1\n\
    6 record 5 moment 10000000000000000000 REST\n\
    7 record 6 moment 1000000000 CLOSE\n";

const AROUND: &str = "..\n\
    4 record 4 moment 4294967296 SENT PUBLISH size 9 qos 1 dup 0 id 1\n\
    5 record 4 moment 4294967296 SENT PUBLISH size 9 qos 1 dup 0 id 1\n\
    \x20 fault S01 MQTT-2.2.1-3 A new PUBLISH, SUBSCRIBE or UNSUBSCRIBE takes no Packet Identifier that is in use.\n\
    6 record 5 moment 10000000000000000000 REST\n\
    ..\n";

// The same line at each of the three forms: the first one of a log of one record.
const OPENED: &[u8] = b"MQTR\x02\x01\x00\x00\x01\x00\x00\x00\x00\x00\x00\x00\x00\x00\x00\x00\x00";

// A client sends a PINGREQ before its CONNECT. The moment of that record is at PINGED_AT.
const PINGED: [u8; 36] = *b"MQTR\x02\x00\x01\x00\
    \x01\x00\x00\x00\x00\x00\x00\x00\x00\x00\x00\x00\x00\
    \x02\x00\x00\x00\x02\x00\x00\x00\x00\x00\x00\x00\x00\xc0\x00";

const PINGED_AT: usize = 26;

// Moments, and the words on them as times.
static TIMES: [(u64, &str); 9] = [
    (946_684_799_999_999, ""),
    (946_684_800_000_000, " (at 2000-01-01 00:00:00.000000 UTC)"),
    (951_825_600_000_001, " (at 2000-02-29 12:00:00.000001 UTC)"),
    (951_868_800_000_000, " (at 2000-03-01 00:00:00.000000 UTC)"),
    (
        1_735_689_599_999_999,
        " (at 2024-12-31 23:59:59.999999 UTC)",
    ),
    (
        1_735_689_600_000_000,
        " (at 2025-01-01 00:00:00.000000 UTC)",
    ),
    (
        1_795_712_601_123_456,
        " (at 2026-11-26 17:03:21.123456 UTC)",
    ),
    (
        4_102_444_799_999_999,
        " (at 2099-12-31 23:59:59.999999 UTC)",
    ),
    (4_102_444_800_000_000, ""),
];

// A client sends a PUBLISH under identifier 0 before its CONNECT, at the moment 1795712601123456.
const UNCONNECTED: &[u8] = b"MQTR\x02\x00\x01\x00\
    \x01\x00\x00\x00\x00\x00\x00\x00\x00\x00\x00\x00\x00\
    \x02\x00\x00\x00\x09\x00\x06\x61\x30\xeb\xb5\x6a\x80\x32\x07\x00\x01a\x00\x00\x00x";

const UNCONNECTED_FAULTS: &str = "..\n\
    2 record 2 moment 1795712601123456 SENT BAD W09 offset 5 type PUBLISH bytes 32 07 00 01 61 [00] 00 00 78\n\
    \x20 fault W09 sec-2.2.1 A Packet Identifier isn't 0. (offset 5) (at 2026-11-26 17:03:21.123456 UTC)\n\
    \x20 fault C02 MQTT-3.1.0-1 The first packet that a client sends on a connection is a CONNECT. (at 2026-11-26 17:03:21.123456 UTC)\n";

// Whether the short lines of what the reader gives are these.
fn is_shown<R: Read>(alloc: Global, reader: &mut R, text: &str) -> bool {
    let mut written = Vec::new(alloc);
    show(alloc, reader, &mut written) == Ok(()) && written.as_slice() == text.as_bytes()
}

// Whether the long lines of the log are these.
fn is_shown_long(alloc: Global, log: &[u8], text: &str) -> bool {
    let mut written = Vec::new(alloc);
    show_long(alloc, &mut &log[..], &mut written) == Ok(()) && written.as_slice() == text.as_bytes()
}

// Whether the log is shown as this text with the faults at its events, in short lines.
fn is_shown_around(alloc: Global, log: &[u8], around: Option<u32>, text: &str) -> bool {
    let Ok((verdict, role)) = judge_reader(alloc, &mut &log[..], Choice::Usual) else {
        return false;
    };
    let mut written = Vec::new(alloc);
    let shown = show_faults(
        alloc,
        &verdict.faults,
        &[],
        role,
        Extent {
            around,
            long: false,
        },
        &mut &log[..],
        &mut written,
    );
    shown == Ok(()) && written.as_slice() == text.as_bytes()
}

#[test]
fn shows_moments_on_short_lines(rt: HostRuntime) {
    assert!(rt; is_shown(rt.alloc(), &mut &LOG[..], SHORT));
}

// The header may come in any pieces.
#[test]
fn shows_moments_of_a_log_that_comes_in_pieces(rt: HostRuntime) {
    assert!(rt; is_shown(rt.alloc(), &mut Pieces::of(LOG, 1), SHORT));
    for size in &[5, 7, 8, 9] {
        let mut reader = Pieces::interrupted(LOG, *size, false);
        assert!(rt; is_shown(rt.alloc(), &mut reader, SHORT), "{size}");
    }
}

#[test]
fn shows_moments_on_long_lines(rt: HostRuntime) {
    assert!(rt; is_shown_long(rt.alloc(), LOG, LONG));
}

#[test]
fn shows_moments_beside_faults(rt: HostRuntime) {
    assert!(rt; is_shown_around(rt.alloc(), LOG, Some(1), AROUND));
}

// Whether a fault at a record with this moment has these words at the end of its line.
fn is_told_as(alloc: Global, moment: u64, words: &str) -> Result<bool, Fail> {
    let mut log = PINGED;
    log[PINGED_AT..PINGED_AT + 8].copy_from_slice(&moment.to_be_bytes());
    let mut text = String::new(alloc);
    write!(text, "..\n2 record 2 moment {moment} SENT PINGREQ size 2\n")?;
    text.push_str("  fault C02 MQTT-3.1.0-1 ")?;
    text.push_str("The first packet that a client sends on a connection is a CONNECT.")?;
    text.push_str(words)?;
    text.push_str("\n")?;
    Ok(is_shown_around(alloc, &log, Some(0), text.as_str()))
}

#[test]
fn tells_when_a_fault_happened(rt: HostRuntime) -> Result<(), Fail> {
    for (moment, words) in &TIMES {
        assert!(rt; is_told_as(rt.alloc(), *moment, words)?, "{moment}");
    }
    Ok(())
}

#[test]
fn tells_the_time_after_the_offset(rt: HostRuntime) {
    assert!(rt; is_shown_around(rt.alloc(), UNCONNECTED, Some(0), UNCONNECTED_FAULTS));
}

#[test]
fn shows_a_moment_of_0(rt: HostRuntime) {
    let text = "1 record 1 moment 0 OPEN\n";
    assert!(rt; is_shown(rt.alloc(), &mut &OPENED[..], text));
    assert!(rt; is_shown_long(rt.alloc(), OPENED, text));
    assert!(rt; is_shown_around(rt.alloc(), OPENED, None, text));
}

// How showing a log ends, and how many bytes are written.
fn shown_of(alloc: Global, mut log: &[u8]) -> (Result<(), RunFault>, usize) {
    let mut written = Vec::new(alloc);
    let shown = show(alloc, &mut log, &mut written);
    (shown, written.len())
}

// A log that ends inside its header has no lines, whatever version it names.
#[test]
fn shows_nothing_of_a_header_that_is_cut_short(rt: HostRuntime) {
    for count in 0..8 {
        let cut = RunFault::Refused(Refusal::Cut(count as u64));
        assert_eq!(rt; shown_of(rt.alloc(), &LOG[..count]), (Err(cut), 0));
    }
}
