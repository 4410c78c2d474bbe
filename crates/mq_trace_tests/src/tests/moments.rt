//! Logs of version 2, whose records have moments.

use super::emission::{LIMIT, other_cutting};
use mq_trace::Refusal;
use mq_trace::Refusal::{Cut, Length, NotOpen, Version};

/// A log, the lines on its events, and its result.
type Row = (&'static [u8], &'static str, Result<(), Refusal>);

/// Logs of version 2, and one of version 1 beside them.
static ROWS: [Row; 9] = [
    (
        b"MQTR\x02\x00\x01\x00\x01\x00\x00\x00\x00\x00\x00\x00\x00\x00\x00\x01\x02",
        "1 record 1 moment 258 OPEN\n",
        Ok(()),
    ),
    (b"MQTR\x03\x00\x01\x00", "", Err(Version(4))),
    // The moment is judged in no way, and each record has its own: a packet has that of its last
    // byte.
    (
        b"MQTR\x02\x00\x01\x00\x01\x00\x00\x00\x00\xff\xff\xff\xff\xff\xff\xff\xff\
            \x02\x00\x00\x00\x01\x00\x00\x00\x00\x00\x00\x00\x02\xc0\
            \x02\x00\x00\x00\x03\x00\x00\x00\x00\x00\x00\x00\x01\x00\xc0\x00\
            \x06\x00\x00\x00\x02\x80\x00\x00\x00\x00\x00\x00\x00\x00\x07\
            \x03\x00\x00\x00\x00\x00\x00\x00\x00\x00\x00\x00\x09\
            \x04\x00\x00\x00\x00\x00\x00\x00\x00\x00\x00\x00\x00",
        "1 record 1 moment 18446744073709551615 OPEN\n2 record 3 moment 1 SENT Pingreq 2\n\
            3 record 3 moment 1 SENT Pingreq 2\n4 record 4 moment 9223372036854775808 RELEASE 7\n5 record 6 CLOSE\n",
        Ok(()),
    ),
    // A body may have 16,777,216 bytes, and no more.
    (
        b"MQTR\x02\x00\x01\x00\x01\x00\x00\x00\x00\x00\x00\x00\x00\x00\x00\x00\x01\x02\x01\x00\x00\x00",
        "1 record 1 moment 1 OPEN\n",
        Err(Cut(26)),
    ),
    (
        b"MQTR\x02\x00\x01\x00\x01\x00\x00\x00\x00\x00\x00\x00\x00\x00\x00\x00\x01\x02\x01\x00\x00\x01",
        "1 record 1 moment 1 OPEN\n",
        Err(Length(25)),
    ),
    // A wrong length is refused before the moment comes, and an event comes after it.
    (
        b"MQTR\x02\x00\x01\x00\x01\x00\x00\x00\x01",
        "",
        Err(Length(12)),
    ),
    (
        b"MQTR\x02\x00\x01\x00\x01\x00\x00\x00\x00\x00\x00\x00\x00\x00\x00\x00",
        "",
        Err(Cut(20)),
    ),
    // The first byte is refused before any other comes.
    (b"MQTR\x02\x00\x01\x00\x02", "", Err(NotOpen(8))),
    // In version 1 the same bytes are other records.
    (
        b"MQTR\x01\x00\x01\x00\x01\x00\x00\x00\x00\x05\x00\x00\x00\x00",
        "1 record 1 OPEN\n2 record 2 REST\n",
        Ok(()),
    ),
];

#[test]
fn reads_the_moment_of_each_record(rt: HostRuntime) {
    for (log, lines, answer) in &ROWS {
        let other = other_cutting(rt.alloc(), LIMIT, log, true, "", lines, *answer);
        assert_eq!(rt; other, None, "{log:?}");
    }
}
