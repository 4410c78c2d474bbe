//! What a tracer emits for a log, as lines.

ghost use Rattle.std.specs.Prelude.{◌≡◌};

use super::logs::{ANSWERED_LINES, Part, log_of};
use mq_trace::{Event, Item, Place3, Refusal, Sink, Tracer, UnfinishedPackets};
use std::alloc::{AllocError, Global};
use std::test::Fail;

/// The limit of `mqjudge`.
pub const LIMIT: u32 = 16_777_216;

/// A sink that writes a line for each event, with or without the number of its record, and refuses
/// an event after a given number.
#[derive(Drop)]
pub struct Lines {
    pub text: String,
    numbered: bool,
    room: u32,
    pub count: u32,
}

impl Lines {
    /// A sink that has room for so many events.
    pub fn new(alloc: Global, numbered: bool, room: u32) -> Lines {
        Lines {
            text: String::new(alloc),
            numbered,
            room,
            count: 0,
        }
    }

    // Writes the line of an event.
    fn write(&mut self, place: Place3, event: &Event<'_>) -> Result<(), AllocError> {
        let Place3 {
            position,
            record_no,
            moment,
        } = place;
        write!(self.text, "{position} ")?;
        if self.numbered {
            write!(self.text, "record {record_no} ")?;
        }
        if moment != 0 {
            write!(self.text, "moment {moment} ")?;
        }
        match event {
            Event::Open => self.text.push_str("OPEN\n"),
            Event::Close { unfinished } => self.write_close(unfinished),
            Event::Rest => self.text.push_str("REST\n"),
            Event::Release(identifier) => writeln!(self.text, "RELEASE {identifier}"),
            Event::Sent(item) => self.write_item("SENT", item),
            Event::Recv(item) => self.write_item("RECV", item),
        }
    }

    // Writes the rest of a CLOSE's line, with what it leaves unfinished.
    fn write_close(&mut self, unfinished: &UnfinishedPackets<'_>) -> Result<(), AllocError> {
        let UnfinishedPackets { sent, received } = *unfinished;
        if sent.is_empty() && received.is_empty() {
            return self.text.push_str("CLOSE\n");
        }
        writeln!(self.text, "CLOSE after {sent:?} and {received:?}")
    }

    // Writes the rest of the line of what was sent or received.
    fn write_item(&mut self, direction: &str, item: &Item<'_>) -> Result<(), AllocError> {
        match item {
            Item::Packet(packet) => {
                let kind = packet.kind();
                let size = packet.size().unwrap_or(0);
                writeln!(self.text, "{direction} {kind:?} {size}")
            }
            Item::Bad { bytes, rule, at } => {
                writeln!(self.text, "{direction} {rule:?} {at} of {bytes:?}")
            }
            Item::Lost => writeln!(self.text, "{direction} LOST"),
        }
    }
}

impl Sink for Lines {
    ghost use Rattle.std.specs.Prelude.{⊤};

    ghost agrees = { λ _ _. ⊤ };

    ghost refuses = { λ _ _ _. ⊤ };

    fn event(&mut self, place: Place3, event: Event<'_>) -> Result<(), Refusal> {
        self.count = self.count.saturating_add(1);
        if self.count > self.room {
            return Err(Refusal::Memory(0));
        }
        self.write(place, &event).map_err(|_| Refusal::Memory(0))
    }
}

/// How a log ends that is fed in pieces of this size; none if more is kept of a direction than a
/// packet may have.
pub fn trace(
    tracer: &mut Tracer,
    limit: u32,
    log: &[u8],
    size: usize,
    lines: &mut Lines,
) -> Option<Result<(), Refusal>> {
    for piece in log.chunks(size.max(1)) {
        if let Err(refusal) = tracer.feed(piece, lines) {
            return Some(Err(refusal));
        }
        if tracer.pending() as u64 > 2 * u64::from(limit) {
            return None;
        }
    }
    Some(tracer.finish())
}

/// How a log ends that a new tracer takes in, in pieces of this size, and its lines.
pub fn traced(
    alloc: Global,
    limit: u32,
    log: &[u8],
    size: usize,
    numbered: bool,
) -> (Option<Result<(), Refusal>>, Lines) {
    let mut tracer = Tracer::new(alloc, limit);
    let mut lines = Lines::new(alloc, numbered, u32::MAX);
    let ended = trace(&mut tracer, limit, log, size, &mut lines);
    (ended, lines)
}

/// The first size of pieces in which a log gives other lines or another result than these.
pub fn other_cutting(
    alloc: Global,
    limit: u32,
    log: &[u8],
    numbered: bool,
    begin: &str,
    lines: &str,
    answer: Result<(), Refusal>,
) -> Option<usize> {
    for size in [usize::MAX, 1, 7, 8192] {
        let (ended, emitted) = traced(alloc, limit, log, size, numbered);
        if ended != Some(answer) || emitted.text.as_str().strip_prefix(begin) != Some(lines) {
            return Some(size);
        }
    }
    None
}

/// The same of the log of these parts, after those of `ANSWERED` or alone, with the lines on the
/// parts.
pub fn other_cutting_of(
    alloc: Global,
    connack_seen: bool,
    parts: &[Part],
    lines: &str,
    answer: Result<(), Refusal>,
) -> Result<Option<usize>, Fail> {
    let log = log_of(alloc, connack_seen, parts, false)?;
    let begin = if connack_seen { ANSWERED_LINES } else { "" };
    Ok(other_cutting(alloc, LIMIT, log.as_slice(), true, begin, lines, answer))
}
