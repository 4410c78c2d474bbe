//! Judges that take packets up to a size.
use mq_judge::{Further, Judge, Options, Refusal};
use std::alloc::Global;

// A client's connection, on which it sends the fixed header of a PUBLISH of the largest size,
// 268,435,460 bytes.
const LOG: &[u8] = b"MQTR\x01\x00\x01\x00\
    \x01\x00\x00\x00\x00\
    \x02\x00\x00\x00\x0f\x10\x0d\x00\x04MQTT\x05\x02\x00\x3c\x00\x00\x00\
    \x03\x00\x00\x00\x05\x20\x03\x00\x00\x00\
    \x02\x00\x00\x00\x05\x30\xff\xff\xff\x7f";

// Whether a log that is judged with this limit on packets has so many events and no fault; or is
// refused so, at once and at its end.
fn is_judged(alloc: Global, limit: u32, log: &[u8], answer: Result<u32, Refusal>) -> bool {
    let mut judge = Judge::new(
        alloc,
        Options {
            limit,
            further: Further::NONE,
        },
    );
    let fed = judge.feed(log);
    match judge.finish() {
        Ok(verdict) => { fed.is_ok() && verdict.faults.is_empty() && answer == Ok(verdict.events) }
        Err(refusal) => fed == Err(refusal) && answer == Err(refusal),
    }
}

// Limits, and how many events the log then has, or how it is refused.
static ROWS: [(u32, Result<u32, Refusal>); 4] = [
    (268_435_460, Ok(3)),
    (268_435_459, Err(Refusal::TooLarge(52))),
    (15, Err(Refusal::TooLarge(52))),
    (14, Err(Refusal::TooLarge(19))),
];

#[test]
fn reads_packets_up_to_the_limit(rt: HostRuntime) {
    for (limit, answer) in &ROWS {
        assert!(rt; is_judged(rt.alloc(), *limit, LOG, *answer), "{limit}");
    }
}
