//! Taking in a log that isn't refused: its next bytes, or events, as the records that they are in
//! it. Nothing is kept of either but what the judge keeps, so it takes no memory of its own.
ghost use Rattle.std.specs.Prelude.{◌≡◌, ◌≤◌, ◌++◌, length};
ghost use Rattle.mq_trace.specs.Writing.{framed};
ghost use Rattle.mq_ffi.specs.Living.{TakesIn};
ghost use Rattle.mq_ffi.specs.Telling.{bytes_of, in_records, most_bytes};

use crate::answer::Trouble;
use crate::event::Event;
use crate::writing::head_of;
use mq_judge::{Judge, Refusal};

/// The bytes that name the kinds of records.
const OPEN: u8 = 1;

const SENT: u8 = 2;

const RECEIVED: u8 = 3;

const CLOSE: u8 = 4;

const REST: u8 = 5;

const RELEASE: u8 = 6;

/// The most bytes that a record can have.
const MOST_BYTES: usize = 1_048_576;

/// Takes in the next bytes of a log.
pub fn take_in(
    judge: &mut Judge,
    refused: &mut Option<Refusal>,
    bytes: &[u8],
) -> Result<(), Trouble>
    ensures { TakesIn bytes.now judge.old judge.new refused.old refused.new result }
{
    match judge.feed(bytes) {
        Ok(()) => Ok(()),
        Err(refusal) => {
            *refused = Some(refusal);
            Err(Trouble::Refused)
        }
    }
}

/// Takes in an event.
pub fn take_event(
    judge: &mut Judge,
    refused: &mut Option<Refusal>,
    event: Event<'_>,
) -> Result<(), Trouble>
    ensures { TakesIn (bytes_of event.entry) judge.old judge.new refused.old refused.new result }
{
    match event {
        Event::Open => take_record(judge, refused, OPEN, &[]),
        Event::Sent(bytes) => take_records(judge, refused, SENT, bytes),
        Event::Received(bytes) => take_records(judge, refused, RECEIVED, bytes),
        Event::Close => take_record(judge, refused, CLOSE, &[]),
        Event::Rest => take_record(judge, refused, REST, &[]),
        Event::Release(identifier) => {
            take_record(judge, refused, RELEASE, &identifier.to_be_bytes())
        }
    }
}

// Takes in bytes as records of this kind, as many as they need.
fn take_records(
    judge: &mut Judge,
    refused: &mut Option<Refusal>,
    kind: u8,
    bytes: &[u8],
) -> Result<(), Trouble>
    ensures { TakesIn (in_records (framed 1 0 kind) bytes.now) judge.old judge.new refused.old refused.new result }
{
    let mut rest = bytes;
    while rest.len() > MOST_BYTES {
        let (part, later) = rest.split_at(MOST_BYTES);
        match take_record(judge, refused, kind, part) {
            Ok(()) => rest = later,
            Err(trouble) => return Err(trouble),
        }
    }
    take_record(judge, refused, kind, rest)
}

// Takes in a record: its head, and then its body, where that is.
#[tactic(auto, unfolding(mq_trace::specs::Writing::moment_bytes))]
fn take_record(
    judge: &mut Judge,
    refused: &mut Option<Refusal>,
    kind: u8,
    body: &[u8],
) -> Result<(), Trouble>
    requires { length body.now ≤ most_bytes }
    ensures { TakesIn (framed 1 0 kind body.now) judge.old judge.new refused.old refused.new result }
{
    let head = head_of(kind, body.len() as u32);
    match take_in(judge, refused, &head) {
        Ok(()) => take_in(judge, refused, body),
        Err(trouble) => Err(trouble),
    }
}
