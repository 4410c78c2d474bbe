//! Reads a log that is fed in pieces, and emits its events to a sink.

ghost use Rattle.std.specs.Prelude.{◌≡◌, ℕ, ◌+◌, ◌-◌, ◌*◌, ◌≤◌, min, List, [], ◌++◌, ◌||◌, not, nat_lt, length, Some, None, Err, IfErr, IfOk, IfSome, OnOk, if◌then◌else◌};
ghost use Rattle.mq_log.specs.Framing.{header_by};
ghost use Rattle.mq_trace.specs.Keeping.{IsSound, unfinished_by};
ghost use Rattle.mq_trace.specs.Tracing.{IsTracedTo, Begins, TracesPiece, Ends, HasRead, HasReceived, KeepsHeader, StopsAt, StopsInHeader, left_if, left_at_end, is_between};
ghost use Rattle.mq_log.specs.Reception.{packets_of};
ghost use Rattle.mq_log.specs.Refusing.{refusal_offset};

use super::deframer::unfinished_packets;
use super::reading::Reading;
use super::sink::Sink;
use mq_log::{HEADER_LENGTH, Header, Refusal, UnfinishedPackets};
use std::alloc::Global;
use std::marker::Model;

/// Reads a log that is fed in pieces, however it is cut, and emits each event to a sink when its
/// last byte comes.
///
/// # Examples
///
/// ```
/// let mut count = Count(0);
/// let mut tracer = Tracer::new(rt.alloc(), 16_777_216);
/// tracer.feed(b"MQTR\x01\x00\x01\x00\x01\x00", &mut count)?;
/// tracer.feed(b"\x00\x00\x00\x04\x00\x00\x00\x00", &mut count)?;
/// tracer.finish()?;
/// assert_eq!(rt; count.0, 2);
/// ```
///
/// A second OPEN on the connection is refused at its first byte:
///
/// ```
/// let mut count = Count(0);
/// let mut tracer = Tracer::new(rt.alloc(), 16_777_216);
/// let nested = b"MQTR\x01\x00\x01\x00\x01\x00\x00\x00\x00\x01";
/// assert_eq!(rt; tracer.feed(nested, &mut count), Err(Refusal::Nested(13)));
/// assert_eq!(rt; count.0, 1);
/// ```
#[derive(Drop)]
pub struct Tracer {
    refusal: Option<Refusal>,
    reading: Reading,
}

impl Model for Tracer {
    ghost use Rattle.std.specs.Prelude.{◌≡◌, None};
    ghost use Rattle.mq_trace.specs.Keeping.{IsSound};
    ghost use Rattle.mq_trace.specs.Tracing.{Traced};

    ghost Value = { Traced };

    ghost view = { λ t. record { refusal = t.refusal; reading = t.reading } };

    ghost invariant = { λ t. t.refusal ≡ None → IsSound t.reading };
}

impl Tracer {
    /// A tracer that has been fed nothing, and reads packets of at most `limit` bytes: 5 to
    /// 268,435,460.
    pub fn new(alloc: Global, limit: u32) -> Self
        ensures follows { IsTracedTo result [] }
        ensures limit { result.reading.limit ≡ limit }
    {
        Tracer {
            refusal: None,
            reading: Reading::new(alloc, limit),
        }
    }

    /// What the log's header says, once it is whole. After a refusal it is what the bytes before
    /// the refused one say.
    pub fn header(&self) -> Option<Header>
        ensures follows { (log : List ℕ) → IsTracedTo self.now log → result ≡ (if nat_lt (length log) 8 then None else Some (header_by log)) }
        ensures stopped { (taken : List ℕ) → KeepsHeader self.now.reading taken → result ≡ (if nat_lt (length taken) 8 then None else Some (header_by taken)) }
    {
        if self.reading.at < HEADER_LENGTH {
            return None;
        }
        Some(self.reading.header)
    }

    /// How many bytes of the log were taken in. After a refusal it is the offset of the refused
    /// byte.
    pub fn byte_count(&self) -> u64
        ensures follows { (log : List ℕ) → IsTracedTo self.now log → result ≡ length log }
        ensures stopped { IfSome self.now.refusal (λ refusal. result ≡ refusal_offset refusal) }
    {
        match self.refusal {
            Some(refusal) => refusal.byte(),
            None => self.reading.at,
        }
    }

    /// Takes in what of the next piece belongs to the log's header, and returns the rest of the
    /// piece. A header completes no event.
    ///
    /// # Errors
    ///
    /// As `feed`.
    pub fn begin<'a>(&mut self, piece: &'a [u8]) -> Result<&'a [u8], Refusal>
        ensures begins { (log : List ℕ) → IsTracedTo self.old log → IfOk result (λ rest. Begins self.new log piece.now rest.now) }
        ensures stopped { (log : List ℕ) → IsTracedTo self.old log → IfErr result (λ refusal. StopsInHeader self.old.reading.limit log piece.now self.new.reading refusal) }
        ensures limit { OnOk result (self.new.reading.limit ≡ self.old.reading.limit) }
        ensures refuses { IfErr result (λ refusal. self.new.refusal ≡ Some refusal) }
        ensures for_ever { IfSome self.old.refusal (λ refusal. (result ≡ Err refusal) × (self.new ≡ self.old)) }
    {
        let (header, rest) = piece.split_at(self.header_count(piece.len()));
        match self.feed(header, &mut ()) {
            Ok(()) => Ok(rest),
            Err(refusal) => Err(refusal),
        }
    }

    // How many of the next `count` bytes of the log belong to its header.
    fn header_count(&self, count: usize) -> usize
        ensures within { result ≤ count }
        ensures count { (log : List ℕ) → IsTracedTo self.now log → result ≡ min (8 - length log) count }
    {
        let left = HEADER_LENGTH.saturating_sub(self.byte_count());
        (left as usize).min(count)
    }

    /// Takes in the next piece of the log, and emits the events whose last bytes are in it. It
    /// doesn't matter how the log is cut into pieces.
    ///
    /// # Errors
    ///
    /// The refusal whose condition applies at the earliest byte, and at one byte the one with the
    /// lowest number; the sink's own refusal, at the byte that completed the event, if no condition
    /// applies at it; or `Memory`, at a byte that couldn't be kept, if no condition applies at it:
    /// it belongs to a packet of which more is to come. No condition applies before the byte that
    /// is named, and the sink has received all events that are complete before it. From then on
    /// each call fails with the same refusal.
    pub fn feed<S: Sink>(&mut self, piece: &[u8], sink: &mut S) -> Result<(), Refusal>
        ensures answers { (log : List ℕ) → IsTracedTo self.old log → TracesPiece S.agrees S.refuses self.old.reading.limit log piece.now sink.old sink.new result }
        ensures follows { (log : List ℕ) → IsTracedTo self.old log → OnOk result (IsTracedTo self.new (log ++ piece.now)) }
        ensures stopped { (log : List ℕ) → IsTracedTo self.old log → IfErr result (λ refusal. StopsAt S.agrees S.refuses self.old.reading.limit log piece.now sink.old sink.new self.new.reading refusal) }
        ensures limit { OnOk result (self.new.reading.limit ≡ self.old.reading.limit) }
        ensures refuses { IfErr result (λ refusal. self.new.refusal ≡ Some refusal) }
        ensures for_ever { IfSome self.old.refusal (λ refusal. (result ≡ Err refusal) × (self.new ≡ self.old) × (sink.new ≡ sink.old)) }
    {
        if let Some(refusal) = self.refusal {
            return Err(refusal);
        }
        let taken = consume(&mut self.reading, piece, sink);
        if let Err(refusal) = taken {
            self.refusal = Some(refusal);
        }
        taken
    }

    /// Ends the log.
    ///
    /// # Errors
    ///
    /// The refusal that an earlier call returned; `Cut`, at the log's length, if the log ends
    /// inside its header or a record.
    pub fn finish(&mut self) -> Result<(), Refusal>
        ensures ends { (log : List ℕ) → IsTracedTo self.old log → Ends log result }
        ensures same { OnOk result (self.new ≡ self.old) }
        ensures refuses { IfErr result (λ refusal. self.new.refusal ≡ Some refusal) }
        ensures stopped { (log : List ℕ) → IsTracedTo self.old log → KeepsHeader self.new.reading log }
        ensures for_ever { IfSome self.old.refusal (λ refusal. (result ≡ Err refusal) × (self.new ≡ self.old)) }
    {
        if let Some(refusal) = self.refusal {
            return Err(refusal);
        }
        if is_cut_short(&self.reading) {
            let refusal = Refusal::Cut(self.reading.at);
            self.refusal = Some(refusal);
            return Err(refusal);
        }
        Ok(())
    }

    /// What the log leaves unfinished, if it ends after the bytes that were taken in: nothing, if
    /// no connection is open. After a refusal it is what is kept of the bytes before the refused
    /// one.
    pub fn unfinished(&self) -> UnfinishedPackets<'_>
        ensures follows { (log : List ℕ) → IsTracedTo self.now log → packets_of result ≡ left_at_end log }
        ensures kept { packets_of result ≡ left_if self.now.reading.connections.connected (unfinished_by self.now.reading) }
    {
        if self.reading.connections.connected {
            unfinished_packets(&self.reading.sent, &self.reading.recv)
        } else {
            UnfinishedPackets {
                sent: &[],
                received: &[],
            }
        }
    }

    /// How many bytes of unfinished packets are kept.
    pub fn pending(&self) -> usize
        ensures lengths { result ≡ length self.now.reading.sent.unfinished.items + length self.now.reading.recv.unfinished.items }
        ensures bound { (log : List ℕ) → IsTracedTo self.now log → 5 ≤ self.now.reading.limit → result ≤ 2 * self.now.reading.limit }
    {
        self.reading.sent.unfinished.len() + self.reading.recv.unfinished.len()
    }
}

// Whether the log, if it ended here, would end inside its header or a record.
fn is_cut_short(reading: &Reading) -> bool
    ensures { result ≡ (nat_lt reading.now.at 8 || not (is_between reading.now.stage)) }
{
    reading.at < HEADER_LENGTH || !reading.stage.is_between()
}

// Takes in a piece of a log.
fn consume<S: Sink>(reading: &mut Reading, piece: &[u8], sink: &mut S) -> Result<(), Refusal>
    requires { IsSound reading.old }
    ensures sound { OnOk result (IsSound reading.new) }
    ensures limit { OnOk result (reading.new.limit ≡ reading.old.limit) }
    ensures keeps { (log : List ℕ) → HasRead reading.old log → OnOk result (HasRead reading.new (log ++ piece.now)) }
    ensures receives { (log : List ℕ) → HasRead reading.old log → OnOk result (HasReceived S.agrees log piece.now sink.old sink.new) }
    ensures stops { (log : List ℕ) → HasRead reading.old log → IfErr result (λ refusal. StopsAt S.agrees S.refuses reading.old.limit log piece.now sink.old sink.new reading.new refusal) }
{
    let mut rest = piece;
    while !rest.is_empty() {
        match reading.consume(rest, sink) {
            Ok(count) => rest = &rest[count..],
            Err(refusal) => return Err(refusal),
        }
    }
    Ok(())
}
