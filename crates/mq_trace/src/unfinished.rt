//! The bytes of an unfinished packet.

ghost use Rattle.std.specs.Prelude.{◌≡◌, ◌==◌, ◌+◌, ◌<◌, ◌≤◌, ◌^◌, ◌++◌, [], OnOk, OnErr, IfErr, length, false};
ghost use Rattle.mq_packet.specs.Stream.{fixed_header_of};
ghost use Rattle.mq_packet.specs.declared.header.FixedHeader.TheVariants as headers;
ghost use Rattle.mq_log.specs.Reception.{Declines};
ghost use Rattle.mq_trace.specs.Deframing.{body_context, flow_of, FlowStops, FlowComes};

use super::connections::Connections;
use super::deframer::{BodyContext, emit_frame};
use super::frame::Frame;
use super::sink::Sink;
use bytes::BytesMut;
use mq_log::Refusal;
use std::alloc::{AllocError, Global};
use std::marker::Model;

/// The bytes of an unfinished packet. If there are any, there is room for one byte more. So no
/// packet needs memory for its last byte alone, and the refusal that applies at that byte is always
/// found.
#[derive(Drop)]
pub struct Unfinished {
    bytes: BytesMut,
}

impl Model for Unfinished {
    ghost use Rattle.std.specs.Prelude.{◌<◌, length};
    ghost use Rattle.bytes.specs.Filled.{Filled};

    ghost Value = { Filled };

    ghost view = { λ u. u.bytes };

    ghost invariant = { λ u. 0 < length u.bytes.items → 0 < u.bytes.spare };
}

impl Unfinished {
    /// No bytes.
    pub fn new(alloc: Global) -> Self
        ensures { result.items ≡ [] }
    {
        Unfinished {
            bytes: BytesMut::new(alloc),
        }
    }

    /// How many bytes there are.
    pub fn len(&self) -> usize
        ensures value { result ≡ length self.now.items }
        ensures bound { result < 2 ^ 63 }
    {
        self.bytes.len()
    }

    /// Whether there are none.
    #[inline(always)]
    pub fn is_empty(&self) -> bool
        ensures { result ≡ (length self.now.items == 0) }
    {
        self.bytes.is_empty()
    }

    /// The bytes.
    #[inline(always)]
    pub fn as_slice(&self) -> &[u8]
        ensures { result.now ≡ self.now.items }
    {
        self.bytes.as_slice()
    }

    /// Drops all bytes.
    pub fn clear(&mut self)
        ensures { self.new.items ≡ [] }
    {
        self.bytes.clear();
    }

    /// Appends bytes of the packet, of which more is to come.
    ///
    /// # Errors
    ///
    /// If there is no memory for them and one byte more. Nothing is appended then.
    pub fn extend(&mut self, bytes: &[u8]) -> Result<(), AllocError>
        ensures ok { OnOk result (self.new.items ≡ self.old.items ++ bytes.now) }
        ensures same { OnErr result (self.new.items ≡ self.old.items) }
        ensures wanted { OnErr result (self.old.spare ≤ length bytes.now) }
    {
        self.bytes.reserve(bytes.len() + 1)?;
        self.bytes.extend_reserved(bytes);
        Ok(())
    }

    /// Appends the packet's last bytes, the first of which has this offset in the log, emits the
    /// packet, whose fixed header has so many bytes, and drops its bytes.
    ///
    /// # Errors
    ///
    /// The refusal that applies at the last of them; the sink's own refusal; `Memory`, at the first
    /// of them, if there are several.
    #[inline(never)]
    pub fn complete<S: Sink>(
        &mut self,
        context: BodyContext,
        connections: &mut Connections,
        at: u64,
        header: usize,
        bytes: &[u8],
        sink: &mut S,
    ) -> Result<(), Refusal>
        requires begun { 1 ≤ length self.old.items }
        requires some { 1 ≤ length bytes.now }
        requires room { at + length bytes.now < 2 ^ 64 }
        requires whole { fixed_header_of (self.old.items ++ bytes.now) ≡ headers.Whole header (length (self.old.items ++ bytes.now)) }
        requires fits { length (self.old.items ++ bytes.now) ≤ header + 268435455 }
        requires within { length (self.old.items ++ bytes.now) ≤ context.limit }
        ensures comes { OnOk result (FlowComes S.agrees context.limit (body_context context) (flow_of at (record { unfinished = self.old.items; lost = false }) connections.old)
            (flow_of (at + length bytes.now) (record { unfinished = []; lost = false }) connections.new) bytes.now sink.old sink.new) }
        ensures empty { OnOk result (self.new.items ≡ []) }
        ensures stops { IfErr result (λ refusal. FlowStops (Declines S.agrees S.refuses) context.limit (body_context context) (flow_of at (record { unfinished = self.old.items; lost = false }) connections.old) bytes.now sink.old sink.new refusal) }
    {
        let last = at + (bytes.len() - 1) as u64;
        match self.bytes.extend_from_slice(bytes) {
            Ok(()) => {
                let frame = Frame::new(self.bytes.as_slice(), header);
                let emitted = emit_frame(&context, connections, last, &frame, sink);
                self.bytes.clear();
                emitted
            }
            Err(_) => Err(Refusal::Memory(at)),
        }
    }
}
