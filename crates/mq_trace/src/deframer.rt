//! One direction of a connection: its stream of packets, which the bodies of records carry in any
//! cutting.
//!
//! The path of a whole packet to the sink is inlined, so that the packet isn't moved; rare cases
//! are functions of their own.

ghost use Rattle.std.specs.Prelude.{◌≡◌, ◌==◌, ◌+◌, ◌<◌, ◌≤◌, ◌^◌, ◌++◌, ◌∷◌, [], List, Some, None, OnOk, OnErr, IfOk, IfErr, IsTrue, Ok, Err, length, take, slice_index, true, false};
ghost use Rattle.mq_packet.specs.Stream.{fixed_header_of, HasBounds};
ghost use Rattle.mq_packet.specs.Reading.{view};
ghost use Rattle.mq_packet.specs.Sizes.{size_with, remaining_length};
ghost use Rattle.mq_packet.specs.declared.header.FixedHeader.TheVariants as headers;
ghost use Rattle.mq_packet.specs.declared.packet.Packet.TheVariants as packets;
ghost use Rattle.mq_log.specs.Events.{Placed, bad, lost, read_frame};
ghost use Rattle.mq_log.specs.Context.{put};
ghost use Rattle.mq_log.specs.Reception.{AreEvents, Declines, packets_of};
ghost use Rattle.mq_trace.specs.Emission.{NotEmitted, event_refusal, connections_with, next_placed};
ghost use Rattle.mq_trace.specs.Keeping.{state_in, IsUnfinished};
ghost use Rattle.mq_trace.specs.Settling.{IsByteStep, IsFrame, IsStep, IsWhole};
ghost use Rattle.mq_log.specs.Flows.{item_event, flow_refused, flow_events, flow_after_bytes};
ghost use Rattle.mq_trace.specs.Deframing.{body_context, flow_of, frame_event, refusal_at_frame, placed_frame, connections_then, FlowStops, FlowComes};

use super::connections::{Connections, Effect, emit, emit_packet, emit_publish};
use super::frame::Frame;
use super::sink::Sink;
use super::unfinished::Unfinished;
use mq_log::{Direction, InRecord, Item, Refusal, UnfinishedPackets, item_event};
use mq_packet::{
    DecodeFault, FixedHeader, Packet, PacketRule, Publish, decode, decode_brief_acknowledgement,
    decode_brief_publish, decode_identified_publish, decode_ping, decode_publish, fixed_header,
};
use std::alloc::Global;

/// What is kept of one direction: the bytes of its unfinished packet.
#[derive(Drop)]
pub struct Deframer {
    pub unfinished: Unfinished,
    pub lost: bool,
}

/// What stays the same while the body of a record is read.
#[derive(Clone, Copy)]
pub struct BodyContext {
    /// The record.
    pub in_record: InRecord,
    /// The largest packet that is read, in bytes.
    pub limit: u32,
    /// The direction of the body's bytes.
    pub direction: Direction,
    /// Whether the tested end is a server.
    pub server: bool,
}

/// What the next bytes of a direction are, where they don't begin with a whole packet.
#[derive(Clone, Copy)]
pub enum Step {
    /// The beginning of a packet, of which more is to come, while none is unfinished.
    Beginning,
    /// Anything else: more of an unfinished packet, a packet larger than the limit, or bytes that
    /// can't be parsed.
    Other,
}

/// What a byte that may belong to a fixed header is to its packet.
#[derive(Clone, Copy)]
pub enum ByteStep {
    /// More of the packet is to come.
    GoesOn,
    /// It is the packet's last byte.
    Ends {
        /// How many of the packet's bytes are its fixed header.
        header: usize,
    },
    /// It ends a fixed header that gives a size over the limit.
    TooLarge,
    /// It makes the Remaining Length invalid (MQTT 5.0, section 1.5.5).
    Loses,
}

/// What these two directions of a connection leave unfinished.
pub fn unfinished_packets<'a>(sent: &'a Deframer, recv: &'a Deframer) -> UnfinishedPackets<'a>
    ensures { packets_of result ≡ record { sent = sent.now.unfinished.items; received = recv.now.unfinished.items } }
{
    UnfinishedPackets {
        sent: sent.unfinished.as_slice(),
        received: recv.unfinished.as_slice(),
    }
}

impl Deframer {
    /// A direction in which nothing has come.
    pub fn new(alloc: Global) -> Self
        ensures { state_in result ≡ record { unfinished = []; lost = false } }
    {
        Deframer {
            unfinished: Unfinished::new(alloc),
            lost: false,
        }
    }

    /// Starts over, as at the beginning of each connection.
    pub fn clear(&mut self)
        ensures { state_in self.new ≡ record { unfinished = []; lost = false } }
    {
        self.unfinished.clear();
        self.lost = false;
    }

    /// Whether the direction is neither lost nor inside a packet.
    #[inline(always)]
    pub fn is_idle(&self) -> bool
        ensures { IsTrue result → state_in self.now ≡ record { unfinished = []; lost = false } }
    {
        !self.lost && self.unfinished.is_empty()
    }

    /// Takes in the next bytes of the direction, which are this and don't begin with a whole
    /// packet, up to the end of the packet that the first one belongs to. Returns how many. The
    /// first one has this offset in the log.
    ///
    /// # Errors
    ///
    /// The refusal that applies first at one of them; the sink's own refusal; `Memory`.
    #[inline(always)]
    pub fn consume<S: Sink>(
        &mut self,
        context: BodyContext,
        connections: &mut Connections,
        at: u64,
        step: Step,
        bytes: &[u8],
        sink: &mut S,
    ) -> Result<usize, Refusal>
        requires some { 1 ≤ length bytes.now }
        requires room { at + length bytes.now < 2 ^ 64 }
        requires unfinished { IsUnfinished context.limit (state_in self.old) }
        requires step { IsStep (state_in self.old) context.limit bytes.now step }
        ensures count { IfOk result (λ n. (1 ≤ n) × (n ≤ length bytes.now)) }
        ensures unrefused { IfOk result (λ n. flow_refused context.limit (body_context context) (flow_of at (state_in self.old) connections.old) (take n bytes.now) ≡ None) }
        ensures kept { IfOk result (λ n. flow_after_bytes (body_context context) (flow_of at (state_in self.old) connections.old) (take n bytes.now) ≡ flow_of (at + n) (state_in self.new) connections.new) }
        ensures receives { (earlier : List Placed) → S.agrees sink.old earlier → IfOk result (λ n.
            AreEvents (flow_events (body_context context) (flow_of at (state_in self.old) connections.old) (take n bytes.now) ++ earlier)
            → S.agrees sink.new (flow_events (body_context context) (flow_of at (state_in self.old) connections.old) (take n bytes.now) ++ earlier)) }
        ensures sound { OnOk result (IsUnfinished context.limit (state_in self.new)) }
        ensures stops { IfErr result (λ refusal. FlowStops (Declines S.agrees S.refuses) context.limit (body_context context) (flow_of at (state_in self.old) connections.old) bytes.now sink.old sink.new refusal) }
    {
        if self.lost {
            return Ok(bytes.len());
        }
        match step {
            Step::Beginning => match self.buffer(at, bytes) {
                Ok(()) => Ok(bytes.len()),
                Err(refusal) => Err(refusal),
            },
            Step::Other => match fixed_header(self.unfinished.as_slice()) {
                FixedHeader::Whole { length, size } => {
                    self.go_on(context, connections, at, length, size, bytes, sink)
                }
                _ => match self.consume_byte(context, connections, at, bytes[0], sink) {
                    Ok(()) => Ok(1),
                    Err(refusal) => Err(refusal),
                },
            },
        }
    }

    // Takes in more of an unfinished packet of this size, whose fixed header is whole and has
    // `header` bytes. Returns how many bytes it took.
    //
    // Errors: The refusal that applies at the packet's last byte; the sink's own refusal; `Memory`.
    #[inline(never)]
    fn go_on<S: Sink>(
        &mut self,
        context: BodyContext,
        connections: &mut Connections,
        at: u64,
        header: usize,
        size: usize,
        bytes: &[u8],
        sink: &mut S,
    ) -> Result<usize, Refusal>
        requires some { 1 ≤ length bytes.now }
        requires room { at + length bytes.now < 2 ^ 64 }
        requires unfinished { IsUnfinished context.limit (state_in self.old) }
        requires kept { self.old.lost ≡ false }
        requires begun { fixed_header_of self.old.unfinished.items ≡ headers.Whole header size }
        requires fits { size ≤ header + 268435455 }
        ensures count { IfOk result (λ n. (1 ≤ n) × (n ≤ length bytes.now)) }
        ensures comes { IfOk result (λ n. FlowComes S.agrees context.limit (body_context context) (flow_of at (state_in self.old) connections.old)
            (flow_of (at + n) (state_in self.new) connections.new) (take n bytes.now) sink.old sink.new) }
        ensures sound { OnOk result (IsUnfinished context.limit (state_in self.new)) }
        ensures stops { IfErr result (λ refusal. FlowStops (Declines S.agrees S.refuses) context.limit (body_context context) (flow_of at (state_in self.old) connections.old) bytes.now sink.old sink.new refusal) }
    {
        let lacks = size - self.unfinished.len();
        if bytes.len() < lacks {
            match self.buffer(at, bytes) {
                Ok(()) => Ok(bytes.len()),
                Err(refusal) => Err(refusal),
            }
        } else {
            let last = &bytes[..lacks];
            match self
                .unfinished
                .complete(context, connections, at, header, last, sink)
            {
                Ok(()) => Ok(lacks),
                Err(refusal) => Err(refusal),
            }
        }
    }

    // Keeps bytes of an unfinished packet, of which more is to come.
    //
    // Errors: `Memory`, at the first of them, if there is no memory for them and one byte more.
    // Nothing is kept then.
    #[inline(never)]
    fn buffer(&mut self, at: u64, bytes: &[u8]) -> Result<(), Refusal>
        ensures ok { OnOk result (state_in self.new ≡ record { unfinished = self.old.unfinished.items ++ bytes.now; lost = self.old.lost }) }
        ensures err { IfErr result (λ refusal. refusal ≡ Refusal.Memory at) }
        ensures same { OnErr result (state_in self.new ≡ state_in self.old) }
        ensures wanted { OnErr result (self.old.unfinished.spare ≤ length bytes.now) }
    {
        match self.unfinished.extend(bytes) {
            Ok(()) => Ok(()),
            Err(_) => Err(Refusal::Memory(at)),
        }
    }

    // Takes in one byte, which may belong to a fixed header. What it does is decided before memory
    // is taken, by the fixed header with this byte.
    //
    // Errors: The refusal that applies at it; the sink's own refusal; `Memory`.
    #[inline(never)]
    fn consume_byte<S: Sink>(
        &mut self,
        context: BodyContext,
        connections: &mut Connections,
        at: u64,
        byte: u8,
        sink: &mut S,
    ) -> Result<(), Refusal>
        requires unfinished { IsUnfinished context.limit (state_in self.old) }
        requires kept { self.old.lost ≡ false }
        requires few { length self.old.unfinished.items ≤ 4 }
        requires room { at + 1 < 2 ^ 64 }
        ensures comes { OnOk result (FlowComes S.agrees context.limit (body_context context) (flow_of at (state_in self.old) connections.old)
            (flow_of (at + 1) (state_in self.new) connections.new) (byte ∷ []) sink.old sink.new) }
        ensures sound { OnOk result (IsUnfinished context.limit (state_in self.new)) }
        ensures stops { IfErr result (λ refusal. FlowStops (Declines S.agrees S.refuses) context.limit (body_context context) (flow_of at (state_in self.old) connections.old) (byte ∷ []) sink.old sink.new refusal) }
    {
        match self.byte_step(context.limit, byte) {
            ByteStep::GoesOn => self.buffer(at, &[byte]),
            ByteStep::Ends { header } => {
                self.unfinished
                    .complete(context, connections, at, header, &[byte], sink)
            }
            ByteStep::TooLarge => Err(Refusal::TooLarge(at)),
            ByteStep::Loses => self.mark_lost(context, connections, at, sink),
        }
    }

    // What the next byte is to the unfinished packet, of which at most four bytes came.
    fn byte_step(&self, limit: u32, byte: u8) -> ByteStep
        requires unfinished { IsUnfinished limit (state_in self.now) }
        requires few { length self.now.unfinished.items ≤ 4 }
        ensures { IsByteStep limit self.now.unfinished.items byte result }
    {
        match self.header_with(byte) {
            FixedHeader::Short => ByteStep::GoesOn,
            FixedHeader::Lost => ByteStep::Loses,
            FixedHeader::Whole { length, size } => {
                let count = self.unfinished.len() + 1;
                if length == count && size > limit as usize {
                    ByteStep::TooLarge
                } else if size == count {
                    ByteStep::Ends { header: length }
                } else {
                    ByteStep::GoesOn
                }
            }
        }
    }

    // The fixed header of the unfinished packet, of which at most four bytes came, with one more
    // byte.
    fn header_with(&self, byte: u8) -> FixedHeader
        requires { length self.now.unfinished.items ≤ 4 }
        ensures exact { result ≡ fixed_header_of (self.now.unfinished.items ++ byte ∷ []) }
        ensures bounds { HasBounds result }
    {
        match *self.unfinished.as_slice() {
            [] => fixed_header(&[byte]),
            [a] => fixed_header(&[a, byte]),
            [a, b] => fixed_header(&[a, b, byte]),
            [a, b, c] => fixed_header(&[a, b, c, byte]),
            [a, b, c, d, ..] => fixed_header(&[a, b, c, d, byte]),
        }
    }

    // Marks the direction as lost: the byte at this offset of the log makes the Remaining Length
    // invalid (MQTT 5.0, section 1.5.5).
    //
    // Errors: The refusal that applies to the event, `TooManyEarly` or `TooLong`; the sink's own
    // refusal.
    #[inline(never)]
    fn mark_lost<S: Sink>(
        &mut self,
        context: BodyContext,
        connections: &mut Connections,
        at: u64,
        sink: &mut S,
    ) -> Result<(), Refusal>
        ensures gone { state_in self.new ≡ record { unfinished = []; lost = true } }
        ensures met { OnOk result (event_refusal at context.server connections.old (item_event context.direction lost) ≡ None) }
        ensures kept { OnOk result (connections.new ≡ connections_with context.server connections.old (item_event context.direction lost)) }
        ensures receives { (earlier : List Placed) → S.agrees sink.old earlier → AreEvents (next_placed connections.old context.in_record (item_event context.direction lost) ∷ earlier)
            → OnOk result (S.agrees sink.new (next_placed connections.old context.in_record (item_event context.direction lost) ∷ earlier)) }
        ensures err { IfErr result (λ refusal. NotEmitted (Declines S.agrees S.refuses) at (event_refusal at context.server connections.old (item_event context.direction lost)) (next_placed connections.old context.in_record (item_event context.direction lost) ∷ []) sink.old sink.new refusal) }
    {
        self.unfinished.clear();
        self.lost = true;
        emit(
            connections,
            at,
            context.in_record,
            Effect::Nothing,
            item_event(context.direction, Item::Lost),
            sink,
        )
    }
}

/// The lengths of the fixed header and of the packet, if the bytes of an idle direction begin with
/// a whole one within the limit; else what they are.
#[inline(always)]
pub fn whole_packet(limit: u32, bytes: &[u8]) -> Result<(usize, usize), Step>
    ensures whole { IfOk result (λ lengths. IsWhole limit bytes.now lengths.0 lengths.1) }
    ensures step { IfErr result (λ step. IsStep (record { unfinished = []; lost = false }) limit bytes.now step) }
{
    match fixed_header(bytes) {
        FixedHeader::Whole { length, size } if size <= limit as usize && size <= bytes.len() => {
            Ok((length, size))
        }
        FixedHeader::Whole { size, .. } if size <= limit as usize => Err(Step::Beginning),
        FixedHeader::Short => Err(Step::Beginning),
        _ => Err(Step::Other),
    }
}

/// Takes in a whole packet, while none is unfinished. Its first byte has this offset in the log.
///
/// # Errors
///
/// The refusal that applies at its last byte; the sink's own refusal.
#[inline(always)]
pub fn consume_whole<S: Sink>(
    context: BodyContext,
    connections: &mut Connections,
    at: u64,
    frame: Frame<'_>,
    sink: &mut S,
) -> Result<(), Refusal>
    requires some { 1 ≤ length frame.bytes.now }
    requires room { at + length frame.bytes.now < 2 ^ 64 }
    requires frame { IsFrame frame }
    requires within { length frame.bytes.now ≤ context.limit }
    ensures comes { OnOk result (FlowComes S.agrees context.limit (body_context context) (flow_of at (record { unfinished = []; lost = false }) connections.old)
        (flow_of (at + length frame.entry.bytes.now) (record { unfinished = []; lost = false }) connections.new) frame.entry.bytes.now sink.old sink.new) }
    ensures stops { IfErr result (λ refusal. FlowStops (Declines S.agrees S.refuses) context.limit (body_context context) (flow_of at (record { unfinished = []; lost = false }) connections.old) frame.entry.bytes.now sink.old sink.new refusal) }
{
    let last = at + (frame.bytes.len() - 1) as u64;
    emit_frame(&context, connections, last, &frame, sink)
}

/// Emits a whole packet, whose last byte has this offset in the log.
///
/// The first byte chooses the function before any byte of the body is read. So reading a PUBLISH
/// takes no stack for others.
#[inline(always)]
pub fn emit_frame<S: Sink>(
    context: &BodyContext,
    connections: &mut Connections,
    at: u64,
    frame: &Frame<'_>,
    sink: &mut S,
) -> Result<(), Refusal>
    requires frame { IsFrame frame.now }
    ensures met { OnOk result (refusal_at_frame at context.now connections.old frame.now.bytes.now ≡ None) }
    ensures kept { OnOk result (connections.new ≡ connections_then context.now.server connections.old (frame_event context.now.direction frame.now.bytes.now)) }
    ensures receives { (earlier : List Placed) → S.agrees sink.old earlier → AreEvents (put (placed_frame at context.now connections.old frame.now.bytes.now) earlier)
        → OnOk result (S.agrees sink.new (put (placed_frame at context.now connections.old frame.now.bytes.now) earlier)) }
    ensures err { IfErr result (λ refusal. NotEmitted (Declines S.agrees S.refuses) at (refusal_at_frame at context.now connections.old frame.now.bytes.now) (put (placed_frame at context.now connections.old frame.now.bytes.now) []) sink.old sink.new refusal) }
{
    match frame.first() {
        0x30..0x32 => emit_brief_publish_frame(context, connections, at, frame, sink),
        0x32..0x40 => emit_identified_publish_frame(context, connections, at, frame, sink),
        0x40 => emit_puback_frame(context, connections, at, frame, sink),
        0x50 => emit_pubrec_frame(context, connections, at, frame, sink),
        0x62 => emit_pubrel_frame(context, connections, at, frame, sink),
        0x70 => emit_pubcomp_frame(context, connections, at, frame, sink),
        0xC0 => emit_pingreq_frame(context, connections, at, frame, sink),
        0xD0 => emit_pingresp_frame(context, connections, at, frame, sink),
        _ => emit_other_frame(context, connections, at, frame, sink),
    }
}

// Emits a PUBLISH of QoS 0. Most have a plain Topic Name and no properties.
#[inline(never)]
fn emit_brief_publish_frame<S: Sink>(
    context: &BodyContext,
    connections: &mut Connections,
    at: u64,
    frame: &Frame<'_>,
    sink: &mut S,
) -> Result<(), Refusal>
    requires frame { IsFrame frame.now }
    requires publish { (48 ≤ slice_index frame.now.bytes.now 0) × (slice_index frame.now.bytes.now 0 < 64) }
    ensures met { OnOk result (refusal_at_frame at context.now connections.old frame.now.bytes.now ≡ None) }
    ensures kept { OnOk result (connections.new ≡ connections_then context.now.server connections.old (frame_event context.now.direction frame.now.bytes.now)) }
    ensures receives { (earlier : List Placed) → S.agrees sink.old earlier → AreEvents (put (placed_frame at context.now connections.old frame.now.bytes.now) earlier)
        → OnOk result (S.agrees sink.new (put (placed_frame at context.now connections.old frame.now.bytes.now) earlier)) }
    ensures err { IfErr result (λ refusal. NotEmitted (Declines S.agrees S.refuses) at (refusal_at_frame at context.now connections.old frame.now.bytes.now) (put (placed_frame at context.now connections.old frame.now.bytes.now) []) sink.old sink.new refusal) }
{
    match decode_brief_publish(frame.first(), frame.body()) {
        Some(publish) => emit_decoded_publish(context, connections, at, frame, publish, sink),
        None => emit_publish_frame(context, connections, at, frame, sink),
    }
}

// Emits a PUBLISH of QoS 1 or 2. Most have a plain Topic Name and no properties.
#[inline(never)]
fn emit_identified_publish_frame<S: Sink>(
    context: &BodyContext,
    connections: &mut Connections,
    at: u64,
    frame: &Frame<'_>,
    sink: &mut S,
) -> Result<(), Refusal>
    requires frame { IsFrame frame.now }
    requires publish { (48 ≤ slice_index frame.now.bytes.now 0) × (slice_index frame.now.bytes.now 0 < 64) }
    ensures met { OnOk result (refusal_at_frame at context.now connections.old frame.now.bytes.now ≡ None) }
    ensures kept { OnOk result (connections.new ≡ connections_then context.now.server connections.old (frame_event context.now.direction frame.now.bytes.now)) }
    ensures receives { (earlier : List Placed) → S.agrees sink.old earlier → AreEvents (put (placed_frame at context.now connections.old frame.now.bytes.now) earlier)
        → OnOk result (S.agrees sink.new (put (placed_frame at context.now connections.old frame.now.bytes.now) earlier)) }
    ensures err { IfErr result (λ refusal. NotEmitted (Declines S.agrees S.refuses) at (refusal_at_frame at context.now connections.old frame.now.bytes.now) (put (placed_frame at context.now connections.old frame.now.bytes.now) []) sink.old sink.new refusal) }
{
    match decode_identified_publish(frame.first(), frame.body()) {
        Some(publish) => emit_decoded_publish(context, connections, at, frame, publish, sink),
        None => emit_publish_frame(context, connections, at, frame, sink),
    }
}

// Emits any PUBLISH.
#[inline(never)]
fn emit_publish_frame<S: Sink>(
    context: &BodyContext,
    connections: &mut Connections,
    at: u64,
    frame: &Frame<'_>,
    sink: &mut S,
) -> Result<(), Refusal>
    requires frame { IsFrame frame.now }
    requires publish { (48 ≤ slice_index frame.now.bytes.now 0) × (slice_index frame.now.bytes.now 0 < 64) }
    ensures met { OnOk result (refusal_at_frame at context.now connections.old frame.now.bytes.now ≡ None) }
    ensures kept { OnOk result (connections.new ≡ connections_then context.now.server connections.old (frame_event context.now.direction frame.now.bytes.now)) }
    ensures receives { (earlier : List Placed) → S.agrees sink.old earlier → AreEvents (put (placed_frame at context.now connections.old frame.now.bytes.now) earlier)
        → OnOk result (S.agrees sink.new (put (placed_frame at context.now connections.old frame.now.bytes.now) earlier)) }
    ensures err { IfErr result (λ refusal. NotEmitted (Declines S.agrees S.refuses) at (refusal_at_frame at context.now connections.old frame.now.bytes.now) (put (placed_frame at context.now connections.old frame.now.bytes.now) []) sink.old sink.new refusal) }
{
    match decode_publish(frame.first(), frame.body()) {
        Ok(publish) => emit_decoded_publish(context, connections, at, frame, publish, sink),
        Err(fault) => emit_fault(context, connections, at, frame, fault, sink),
    }
}

// Emits a PUBACK. Most are no more than a Packet Identifier. The first byte is a constant here, so
// that no other packet is possible.
#[inline(never)]
fn emit_puback_frame<S: Sink>(
    context: &BodyContext,
    connections: &mut Connections,
    at: u64,
    frame: &Frame<'_>,
    sink: &mut S,
) -> Result<(), Refusal>
    requires frame { IsFrame frame.now }
    requires puback { slice_index frame.now.bytes.now 0 ≡ 64 }
    ensures met { OnOk result (refusal_at_frame at context.now connections.old frame.now.bytes.now ≡ None) }
    ensures kept { OnOk result (connections.new ≡ connections_then context.now.server connections.old (frame_event context.now.direction frame.now.bytes.now)) }
    ensures receives { (earlier : List Placed) → S.agrees sink.old earlier → AreEvents (put (placed_frame at context.now connections.old frame.now.bytes.now) earlier)
        → OnOk result (S.agrees sink.new (put (placed_frame at context.now connections.old frame.now.bytes.now) earlier)) }
    ensures err { IfErr result (λ refusal. NotEmitted (Declines S.agrees S.refuses) at (refusal_at_frame at context.now connections.old frame.now.bytes.now) (put (placed_frame at context.now connections.old frame.now.bytes.now) []) sink.old sink.new refusal) }
{
    match decode_brief_acknowledgement(0x40, frame.body()) {
        Some(packet) => emit_decoded(context, connections, at, frame, packet, sink),
        None => emit_other_frame(context, connections, at, frame, sink),
    }
}

// Emits a PUBREC, likewise.
#[inline(never)]
fn emit_pubrec_frame<S: Sink>(
    context: &BodyContext,
    connections: &mut Connections,
    at: u64,
    frame: &Frame<'_>,
    sink: &mut S,
) -> Result<(), Refusal>
    requires frame { IsFrame frame.now }
    requires pubrec { slice_index frame.now.bytes.now 0 ≡ 80 }
    ensures met { OnOk result (refusal_at_frame at context.now connections.old frame.now.bytes.now ≡ None) }
    ensures kept { OnOk result (connections.new ≡ connections_then context.now.server connections.old (frame_event context.now.direction frame.now.bytes.now)) }
    ensures receives { (earlier : List Placed) → S.agrees sink.old earlier → AreEvents (put (placed_frame at context.now connections.old frame.now.bytes.now) earlier)
        → OnOk result (S.agrees sink.new (put (placed_frame at context.now connections.old frame.now.bytes.now) earlier)) }
    ensures err { IfErr result (λ refusal. NotEmitted (Declines S.agrees S.refuses) at (refusal_at_frame at context.now connections.old frame.now.bytes.now) (put (placed_frame at context.now connections.old frame.now.bytes.now) []) sink.old sink.new refusal) }
{
    match decode_brief_acknowledgement(0x50, frame.body()) {
        Some(packet) => emit_decoded(context, connections, at, frame, packet, sink),
        None => emit_other_frame(context, connections, at, frame, sink),
    }
}

// Emits a PUBREL, likewise.
#[inline(never)]
fn emit_pubrel_frame<S: Sink>(
    context: &BodyContext,
    connections: &mut Connections,
    at: u64,
    frame: &Frame<'_>,
    sink: &mut S,
) -> Result<(), Refusal>
    requires frame { IsFrame frame.now }
    requires pubrel { slice_index frame.now.bytes.now 0 ≡ 98 }
    ensures met { OnOk result (refusal_at_frame at context.now connections.old frame.now.bytes.now ≡ None) }
    ensures kept { OnOk result (connections.new ≡ connections_then context.now.server connections.old (frame_event context.now.direction frame.now.bytes.now)) }
    ensures receives { (earlier : List Placed) → S.agrees sink.old earlier → AreEvents (put (placed_frame at context.now connections.old frame.now.bytes.now) earlier)
        → OnOk result (S.agrees sink.new (put (placed_frame at context.now connections.old frame.now.bytes.now) earlier)) }
    ensures err { IfErr result (λ refusal. NotEmitted (Declines S.agrees S.refuses) at (refusal_at_frame at context.now connections.old frame.now.bytes.now) (put (placed_frame at context.now connections.old frame.now.bytes.now) []) sink.old sink.new refusal) }
{
    match decode_brief_acknowledgement(0x62, frame.body()) {
        Some(packet) => emit_decoded(context, connections, at, frame, packet, sink),
        None => emit_other_frame(context, connections, at, frame, sink),
    }
}

// Emits a PUBCOMP, likewise.
#[inline(never)]
fn emit_pubcomp_frame<S: Sink>(
    context: &BodyContext,
    connections: &mut Connections,
    at: u64,
    frame: &Frame<'_>,
    sink: &mut S,
) -> Result<(), Refusal>
    requires frame { IsFrame frame.now }
    requires pubcomp { slice_index frame.now.bytes.now 0 ≡ 112 }
    ensures met { OnOk result (refusal_at_frame at context.now connections.old frame.now.bytes.now ≡ None) }
    ensures kept { OnOk result (connections.new ≡ connections_then context.now.server connections.old (frame_event context.now.direction frame.now.bytes.now)) }
    ensures receives { (earlier : List Placed) → S.agrees sink.old earlier → AreEvents (put (placed_frame at context.now connections.old frame.now.bytes.now) earlier)
        → OnOk result (S.agrees sink.new (put (placed_frame at context.now connections.old frame.now.bytes.now) earlier)) }
    ensures err { IfErr result (λ refusal. NotEmitted (Declines S.agrees S.refuses) at (refusal_at_frame at context.now connections.old frame.now.bytes.now) (put (placed_frame at context.now connections.old frame.now.bytes.now) []) sink.old sink.new refusal) }
{
    match decode_brief_acknowledgement(0x70, frame.body()) {
        Some(packet) => emit_decoded(context, connections, at, frame, packet, sink),
        None => emit_other_frame(context, connections, at, frame, sink),
    }
}

// Emits a PINGREQ. The first byte is a constant here, as above.
#[inline(never)]
fn emit_pingreq_frame<S: Sink>(
    context: &BodyContext,
    connections: &mut Connections,
    at: u64,
    frame: &Frame<'_>,
    sink: &mut S,
) -> Result<(), Refusal>
    requires frame { IsFrame frame.now }
    requires pingreq { slice_index frame.now.bytes.now 0 ≡ 192 }
    ensures met { OnOk result (refusal_at_frame at context.now connections.old frame.now.bytes.now ≡ None) }
    ensures kept { OnOk result (connections.new ≡ connections_then context.now.server connections.old (frame_event context.now.direction frame.now.bytes.now)) }
    ensures receives { (earlier : List Placed) → S.agrees sink.old earlier → AreEvents (put (placed_frame at context.now connections.old frame.now.bytes.now) earlier)
        → OnOk result (S.agrees sink.new (put (placed_frame at context.now connections.old frame.now.bytes.now) earlier)) }
    ensures err { IfErr result (λ refusal. NotEmitted (Declines S.agrees S.refuses) at (refusal_at_frame at context.now connections.old frame.now.bytes.now) (put (placed_frame at context.now connections.old frame.now.bytes.now) []) sink.old sink.new refusal) }
{
    match decode_ping(0xC0, frame.body()) {
        Some(packet) => emit_decoded(context, connections, at, frame, packet, sink),
        None => emit_other_frame(context, connections, at, frame, sink),
    }
}

// Emits a PINGRESP, likewise.
#[inline(never)]
fn emit_pingresp_frame<S: Sink>(
    context: &BodyContext,
    connections: &mut Connections,
    at: u64,
    frame: &Frame<'_>,
    sink: &mut S,
) -> Result<(), Refusal>
    requires frame { IsFrame frame.now }
    requires pingresp { slice_index frame.now.bytes.now 0 ≡ 208 }
    ensures met { OnOk result (refusal_at_frame at context.now connections.old frame.now.bytes.now ≡ None) }
    ensures kept { OnOk result (connections.new ≡ connections_then context.now.server connections.old (frame_event context.now.direction frame.now.bytes.now)) }
    ensures receives { (earlier : List Placed) → S.agrees sink.old earlier → AreEvents (put (placed_frame at context.now connections.old frame.now.bytes.now) earlier)
        → OnOk result (S.agrees sink.new (put (placed_frame at context.now connections.old frame.now.bytes.now) earlier)) }
    ensures err { IfErr result (λ refusal. NotEmitted (Declines S.agrees S.refuses) at (refusal_at_frame at context.now connections.old frame.now.bytes.now) (put (placed_frame at context.now connections.old frame.now.bytes.now) []) sink.old sink.new refusal) }
{
    match decode_ping(0xD0, frame.body()) {
        Some(packet) => emit_decoded(context, connections, at, frame, packet, sink),
        None => emit_other_frame(context, connections, at, frame, sink),
    }
}

// Emits any packet.
#[inline(never)]
fn emit_other_frame<S: Sink>(
    context: &BodyContext,
    connections: &mut Connections,
    at: u64,
    frame: &Frame<'_>,
    sink: &mut S,
) -> Result<(), Refusal>
    requires frame { IsFrame frame.now }
    ensures met { OnOk result (refusal_at_frame at context.now connections.old frame.now.bytes.now ≡ None) }
    ensures kept { OnOk result (connections.new ≡ connections_then context.now.server connections.old (frame_event context.now.direction frame.now.bytes.now)) }
    ensures receives { (earlier : List Placed) → S.agrees sink.old earlier → AreEvents (put (placed_frame at context.now connections.old frame.now.bytes.now) earlier)
        → OnOk result (S.agrees sink.new (put (placed_frame at context.now connections.old frame.now.bytes.now) earlier)) }
    ensures err { IfErr result (λ refusal. NotEmitted (Declines S.agrees S.refuses) at (refusal_at_frame at context.now connections.old frame.now.bytes.now) (put (placed_frame at context.now connections.old frame.now.bytes.now) []) sink.old sink.new refusal) }
{
    match decode(frame.first(), frame.body()) {
        Ok(packet) => emit_decoded(context, connections, at, frame, packet, sink),
        Err(fault) => emit_fault(context, connections, at, frame, fault, sink),
    }
}

// Emits a whole packet that was decoded as this one.
#[inline(always)]
fn emit_decoded<S: Sink>(
    context: &BodyContext,
    connections: &mut Connections,
    at: u64,
    frame: &Frame<'_>,
    packet: Packet<'_>,
    sink: &mut S,
) -> Result<(), Refusal>
    requires frame { IsFrame frame.now }
    requires read { read_frame frame.now.bytes.now ≡ Ok (view packet) }
    requires sized { size_with (remaining_length packet) ≡ Some (length frame.now.bytes.now) }
    ensures met { OnOk result (refusal_at_frame at context.now connections.old frame.now.bytes.now ≡ None) }
    ensures kept { OnOk result (connections.new ≡ connections_then context.now.server connections.old (frame_event context.now.direction frame.now.bytes.now)) }
    ensures receives { (earlier : List Placed) → S.agrees sink.old earlier → AreEvents (put (placed_frame at context.now connections.old frame.now.bytes.now) earlier)
        → OnOk result (S.agrees sink.new (put (placed_frame at context.now connections.old frame.now.bytes.now) earlier)) }
    ensures err { IfErr result (λ refusal. NotEmitted (Declines S.agrees S.refuses) at (refusal_at_frame at context.now connections.old frame.now.bytes.now) (put (placed_frame at context.now connections.old frame.now.bytes.now) []) sink.old sink.new refusal) }
{
    emit_packet(context, connections, at, frame.size(), packet, sink)
}

// Emits a whole packet that was decoded as this PUBLISH.
#[inline(always)]
fn emit_decoded_publish<S: Sink>(
    context: &BodyContext,
    connections: &mut Connections,
    at: u64,
    frame: &Frame<'_>,
    publish: Publish<'_>,
    sink: &mut S,
) -> Result<(), Refusal>
    requires frame { IsFrame frame.now }
    requires read { read_frame frame.now.bytes.now ≡ Ok (view (packets.Publish publish)) }
    requires sized { size_with (remaining_length (packets.Publish publish)) ≡ Some (length frame.now.bytes.now) }
    ensures met { OnOk result (refusal_at_frame at context.now connections.old frame.now.bytes.now ≡ None) }
    ensures kept { OnOk result (connections.new ≡ connections_then context.now.server connections.old (frame_event context.now.direction frame.now.bytes.now)) }
    ensures receives { (earlier : List Placed) → S.agrees sink.old earlier → AreEvents (put (placed_frame at context.now connections.old frame.now.bytes.now) earlier)
        → OnOk result (S.agrees sink.new (put (placed_frame at context.now connections.old frame.now.bytes.now) earlier)) }
    ensures err { IfErr result (λ refusal. NotEmitted (Declines S.agrees S.refuses) at (refusal_at_frame at context.now connections.old frame.now.bytes.now) (put (placed_frame at context.now connections.old frame.now.bytes.now) []) sink.old sink.new refusal) }
{
    emit_publish(context, connections, at, frame.size(), publish, sink)
}

// Emits a whole packet that has this fault.
#[inline(always)]
fn emit_fault<S: Sink>(
    context: &BodyContext,
    connections: &mut Connections,
    at: u64,
    frame: &Frame<'_>,
    fault: DecodeFault,
    sink: &mut S,
) -> Result<(), Refusal>
    requires read { read_frame frame.now.bytes.now ≡ Err fault }
    ensures met { OnOk result (refusal_at_frame at context.now connections.old frame.now.bytes.now ≡ None) }
    ensures kept { OnOk result (connections.new ≡ connections_then context.now.server connections.old (frame_event context.now.direction frame.now.bytes.now)) }
    ensures receives { (earlier : List Placed) → S.agrees sink.old earlier → AreEvents (put (placed_frame at context.now connections.old frame.now.bytes.now) earlier)
        → OnOk result (S.agrees sink.new (put (placed_frame at context.now connections.old frame.now.bytes.now) earlier)) }
    ensures err { IfErr result (λ refusal. NotEmitted (Declines S.agrees S.refuses) at (refusal_at_frame at context.now connections.old frame.now.bytes.now) (put (placed_frame at context.now connections.old frame.now.bytes.now) []) sink.old sink.new refusal) }
{
    match fault {
        DecodeFault::Broken(broken) => emit_bad(
            context,
            connections,
            at,
            frame.bytes,
            broken.rule,
            broken.at,
            sink,
        ),
        DecodeFault::OtherVersion(_) => Err(Refusal::OtherVersion(at)),
    }
}

// Emits a packet with these bytes, which breaks a rule at this offset in it.
#[inline(never)]
fn emit_bad<S: Sink>(
    context: &BodyContext,
    connections: &mut Connections,
    at: u64,
    frame: &[u8],
    rule: PacketRule,
    offset: u32,
    sink: &mut S,
) -> Result<(), Refusal>
    ensures met { OnOk result (event_refusal at context.now.server connections.old (item_event context.now.direction (bad frame.now rule offset)) ≡ None) }
    ensures kept { OnOk result (connections.new ≡ connections_with context.now.server connections.old (item_event context.now.direction (bad frame.now rule offset))) }
    ensures receives { (earlier : List Placed) → S.agrees sink.old earlier → AreEvents (next_placed connections.old context.now.in_record (item_event context.now.direction (bad frame.now rule offset)) ∷ earlier)
        → OnOk result (S.agrees sink.new (next_placed connections.old context.now.in_record (item_event context.now.direction (bad frame.now rule offset)) ∷ earlier)) }
    ensures err { IfErr result (λ refusal. NotEmitted (Declines S.agrees S.refuses) at (event_refusal at context.now.server connections.old (item_event context.now.direction (bad frame.now rule offset))) (next_placed connections.old context.now.in_record (item_event context.now.direction (bad frame.now rule offset)) ∷ []) sink.old sink.new refusal) }
{
    let item = Item::Bad {
        bytes: frame,
        rule,
        at: offset,
    };
    emit(
        connections,
        at,
        context.in_record,
        Effect::Nothing,
        item_event(context.direction, item),
        sink,
    )
}
