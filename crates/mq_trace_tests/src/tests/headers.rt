//! The bytes of a header, each by itself.
use mq_log::{Refusal, header_refusal};

/// A byte of a header, where it stands, and why it is refused, if it is.
const BYTES: [(u64, u8, Option<Refusal>); 16] = [
    (0, b'M', None),
    (1, b'Q', None),
    (2, b'T', None),
    (3, b'R', None),
    (4, 1, None),
    (5, 1, None),
    (6, 1, None),
    (7, 0, None),
    (4, 2, None),
    (4, 3, Some(Refusal::Version(4))),
    (0, b'N', Some(Refusal::Header(0))),
    (3, b'r', Some(Refusal::Header(3))),
    (4, 0, Some(Refusal::Version(4))),
    (5, 2, Some(Refusal::Role(5))),
    (6, 3, Some(Refusal::Flags(6))),
    (7, 1, Some(Refusal::Flags(7))),
];

#[test]
fn each_byte_is_refused_as_what_it_is(rt: HostRuntime) {
    for (at, byte, refusal) in &BYTES {
        assert!(rt; header_refusal(*at, *byte) == *refusal, "{byte} at {at}");
    }
}
