//! Passing the bytes of a body on to their direction.

ghost use Rattle.std.specs.Prelude.{◌≡◌, ◌+◌, ◌^◌, ◌<◌, ◌≤◌, ◌++◌, [], List, false, None, OnOk, IfOk, IfErr, IsTrue, length, take, OnErr};
ghost use Rattle.mq_trace.specs.Keeping.{state_in, IsUnfinished, IsSound, Comes, StepStops, HoldsHeader};
ghost use Rattle.mq_trace.specs.declared.stage.Stage.TheVariants as stages;
ghost use Rattle.mq_log.specs.Events.{Placed};
ghost use Rattle.mq_log.specs.Reception.{AreEvents, Declines};
ghost use Rattle.mq_trace.specs.Stepping.{IsBodyHead, begun_body, leaving, in_record_of, context_for, deframer_for, flow_for, redirected};
ghost use Rattle.mq_log.specs.Flows.{flow_refused, flow_events, flow_after_bytes};
ghost use Rattle.mq_trace.specs.Deframing.{flow_of, FlowStops};
ghost use Rattle.mq_trace.specs.Settling.{IsStep, IsWhole};

use super::super::deframer::{BodyContext, Step, consume_whole, whole_packet};
use super::super::frame::Frame;
use super::super::sink::Sink;
use super::super::stage::Stage;
use super::Reading;
use mq_log::{Direction, InRecord, Refusal, head_length};

impl Reading {
    /// Takes in the head of a SENT or RECV of this moment that carries `left` bytes in this
    /// direction, and those of the first packet of its body: most records are taken in so, in one
    /// step. Returns how many bytes it took.
    ///
    /// What is kept is set once, after the packet was emitted.
    ///
    /// # Errors
    ///
    /// As `consume`.
    #[inline(always)]
    pub fn consume_record<S: Sink>(
        &mut self,
        direction: Direction,
        left: u32,
        moment: u64,
        bytes: &[u8],
        sink: &mut S,
    ) -> Result<usize, Refusal>
        requires sound { IsSound self.old }
        requires head { IsBodyHead self.old bytes.now direction left moment }
        ensures count { IfOk result (λ n. (1 ≤ n) × (n ≤ length bytes.now)) }
        ensures sound { OnOk result (IsSound self.new) }
        ensures comes { IfOk result (λ n. Comes S.agrees self.old self.new (take n bytes.now) sink.old sink.new) }
        ensures stops { IfErr result (λ refusal. StepStops (Declines S.agrees S.refuses) self.old bytes.now sink.old sink.new refusal) }
        ensures stays { OnErr result (HoldsHeader self.old self.new) }
    {
        let head = head_length(self.header.version);
        let rest = &bytes[head..];
        let body = &rest[..rest.len().min(left as usize)];
        match self.front_packet(direction, body) {
            Ok((header, size)) => {
                let at = self.at + head as u64;
                let context = self.body_context(direction, moment);
                let frame = Frame::new(&body[..size], header);
                match consume_whole(context, &mut self.connections, at, frame, sink) {
                    Ok(()) => {
                        self.at = at + size as u64;
                        self.moment = moment;
                        self.enter(direction, left - size as u32);
                        Ok(head + size)
                    }
                    Err(refusal) => Err(refusal),
                }
            }
            Err(step) => self.consume_parts(direction, left, moment, step, bytes, sink),
        }
    }

    // The lengths of the fixed header and of the packet, if the direction is neither lost nor
    // inside a packet and the body begins with a whole one; else what the body's bytes are.
    #[inline(always)]
    fn front_packet(&self, direction: Direction, body: &[u8]) -> Result<(usize, usize), Step>
        ensures idle { OnOk result (state_in (deframer_for self.now direction) ≡ record { unfinished = []; lost = false }) }
        ensures whole { IfOk result (λ lengths. IsWhole self.now.limit body.now lengths.0 lengths.1) }
        ensures step { IfErr result (λ step. IsStep (state_in (deframer_for self.now direction)) self.now.limit body.now step) }
    {
        if !self.is_idle(direction) {
            return Err(Step::Other);
        }
        whole_packet(self.limit, body)
    }

    /// Sets the state with `left` bytes of a record's body still to come. With none, the state is
    /// already that between two records.
    #[inline(always)]
    pub fn enter(&mut self, direction: Direction, left: u32)
        requires between { left ≡ 0 → self.old.stage ≡ stages.Between }
        requires numbered { self.old.records < 4294967295 }
        ensures { self.new ≡ leaving self.old direction left }
    {
        if left == 0 {
            self.records += 1;
        } else {
            self.stage = Stage::Body { direction, left };
        }
    }

    /// Takes in bytes of a body, of which `left` are still to come: those of one packet.
    #[inline(always)]
    pub fn consume_body<S: Sink>(
        &mut self,
        direction: Direction,
        left: u32,
        bytes: &[u8],
        sink: &mut S,
    ) -> Result<usize, Refusal>
        requires some { 1 ≤ length bytes.now }
        requires sound { IsSound self.old }
        requires within { self.old.stage ≡ stages.Body direction left }
        ensures count { IfOk result (λ n. (1 ≤ n) × (n ≤ length bytes.now)) }
        ensures sound { OnOk result (IsSound self.new) }
        ensures comes { IfOk result (λ n. Comes S.agrees self.old self.new (take n bytes.now) sink.old sink.new) }
        ensures stops { IfErr result (λ refusal. StepStops (Declines S.agrees S.refuses) self.old bytes.now sink.old sink.new refusal) }
        ensures stays { OnErr result (HoldsHeader self.old self.new) }
    {
        let body = &bytes[..bytes.len().min(left as usize)];
        match self.front_packet(direction, body) {
            Ok((header, size)) => match self.pass_whole(direction, header, size, body, sink) {
                Ok(count) => {
                    self.at += count as u64;
                    self.leave(direction, left - count as u32);
                    Ok(count)
                }
                Err(refusal) => Err(refusal),
            },
            Err(step) => self.consume_part(direction, left, step, bytes, sink),
        }
    }

    /// Takes in bytes of a body, of which `left` are still to come: those of one packet. They are
    /// this, and don't begin with a whole packet.
    #[inline(never)]
    pub fn consume_part<S: Sink>(
        &mut self,
        direction: Direction,
        left: u32,
        step: Step,
        bytes: &[u8],
        sink: &mut S,
    ) -> Result<usize, Refusal>
        requires some { 1 ≤ length bytes.now }
        requires sound { IsSound self.old }
        requires within { self.old.stage ≡ stages.Body direction left }
        requires step { IsStep (state_in (deframer_for self.old direction)) self.old.limit (begun_body 0 left bytes.now) step }
        ensures count { IfOk result (λ n. (1 ≤ n) × (n ≤ length bytes.now)) }
        ensures sound { OnOk result (IsSound self.new) }
        ensures comes { IfOk result (λ n. Comes S.agrees self.old self.new (take n bytes.now) sink.old sink.new) }
        ensures stops { IfErr result (λ refusal. StepStops (Declines S.agrees S.refuses) self.old bytes.now sink.old sink.new refusal) }
        ensures stays { OnErr result (HoldsHeader self.old self.new) }
    {
        let body = &bytes[..bytes.len().min(left as usize)];
        match self.pass_part(direction, step, body, sink) {
            Ok(count) => {
                self.at += count as u64;
                self.leave(direction, left - count as u32);
                Ok(count)
            }
            Err(refusal) => Err(refusal),
        }
    }

    // Whether the direction is neither lost nor inside a packet.
    #[inline(always)]
    fn is_idle(&self, direction: Direction) -> bool
        ensures { IsTrue result → state_in (deframer_for self.now direction) ≡ record { unfinished = []; lost = false } }
    {
        match direction {
            Direction::Sent => self.sent.is_idle(),
            Direction::Recv => self.recv.is_idle(),
        }
    }

    // Passes on the whole packet that the bytes begin with, in a direction that is neither lost nor
    // inside a packet.
    #[inline(always)]
    fn pass_whole<S: Sink>(
        &mut self,
        direction: Direction,
        header: usize,
        size: usize,
        body: &[u8],
        sink: &mut S,
    ) -> Result<usize, Refusal>
        requires idle { state_in (deframer_for self.old direction) ≡ record { unfinished = []; lost = false } }
        requires whole { IsWhole self.old.limit body.now header size }
        requires unfinished { IsUnfinished self.old.limit (state_in (deframer_for self.old direction)) }
        requires room { self.old.at + length body.now < 2 ^ 64 }
        requires numbered { self.old.records < 4294967295 }
        ensures is { self.new ≡ record (redirected self.old direction (deframer_for self.new direction)) { connections = self.new.connections } }
        ensures count { IfOk result (λ n. (1 ≤ n) × (n ≤ length body.now)) }
        ensures unrefused { IfOk result (λ n. flow_refused self.old.limit (context_for self.old direction) (flow_for self.old direction) (take n body.now) ≡ None) }
        ensures kept { IfOk result (λ n. flow_after_bytes (context_for self.old direction) (flow_for self.old direction) (take n body.now) ≡ flow_of (self.old.at + n) (state_in (deframer_for self.new direction)) self.new.connections) }
        ensures receives { (earlier : List Placed) → S.agrees sink.old earlier → IfOk result (λ n.
            AreEvents (flow_events (context_for self.old direction) (flow_for self.old direction) (take n body.now) ++ earlier)
            → S.agrees sink.new (flow_events (context_for self.old direction) (flow_for self.old direction) (take n body.now) ++ earlier)) }
        ensures sound { OnOk result (IsUnfinished self.old.limit (state_in (deframer_for self.new direction))) }
        ensures stops { IfErr result (λ refusal. FlowStops (Declines S.agrees S.refuses) self.old.limit (context_for self.old direction) (flow_for self.old direction) body.now sink.old sink.new refusal) }
    {
        let context = self.body_context(direction, self.moment);
        let frame = Frame::new(&body[..size], header);
        match consume_whole(context, &mut self.connections, self.at, frame, sink) {
            Ok(()) => Ok(size),
            Err(refusal) => Err(refusal),
        }
    }

    // Passes on bytes that are this, and don't begin with a whole packet.
    #[inline(always)]
    fn pass_part<S: Sink>(
        &mut self,
        direction: Direction,
        step: Step,
        body: &[u8],
        sink: &mut S,
    ) -> Result<usize, Refusal>
        requires some { 1 ≤ length body.now }
        requires room { self.old.at + length body.now < 2 ^ 64 }
        requires numbered { self.old.records < 4294967295 }
        requires unfinished { IsUnfinished self.old.limit (state_in (deframer_for self.old direction)) }
        requires step { IsStep (state_in (deframer_for self.old direction)) self.old.limit body.now step }
        ensures is { self.new ≡ record (redirected self.old direction (deframer_for self.new direction)) { connections = self.new.connections } }
        ensures count { IfOk result (λ n. (1 ≤ n) × (n ≤ length body.now)) }
        ensures unrefused { IfOk result (λ n. flow_refused self.old.limit (context_for self.old direction) (flow_for self.old direction) (take n body.now) ≡ None) }
        ensures kept { IfOk result (λ n. flow_after_bytes (context_for self.old direction) (flow_for self.old direction) (take n body.now) ≡ flow_of (self.old.at + n) (state_in (deframer_for self.new direction)) self.new.connections) }
        ensures receives { (earlier : List Placed) → S.agrees sink.old earlier → IfOk result (λ n.
            AreEvents (flow_events (context_for self.old direction) (flow_for self.old direction) (take n body.now) ++ earlier)
            → S.agrees sink.new (flow_events (context_for self.old direction) (flow_for self.old direction) (take n body.now) ++ earlier)) }
        ensures sound { OnOk result (IsUnfinished self.old.limit (state_in (deframer_for self.new direction))) }
        ensures stops { IfErr result (λ refusal. FlowStops (Declines S.agrees S.refuses) self.old.limit (context_for self.old direction) (flow_for self.old direction) body.now sink.old sink.new refusal) }
    {
        let context = self.body_context(direction, self.moment);
        let at = self.at;
        match direction {
            Direction::Sent => self
                .sent
                .consume(context, &mut self.connections, at, step, body, sink),
            Direction::Recv => self
                .recv
                .consume(context, &mut self.connections, at, step, body, sink),
        }
    }

    // What stays the same while the body of the record, which has this moment, is read.
    #[inline(always)]
    fn body_context(&self, direction: Direction, moment: u64) -> BodyContext
        requires { self.now.records < 4294967295 }
        ensures { result ≡ record { direction = direction; server = self.now.header.server; in_record = in_record_of self.now moment; limit = self.now.limit } }
    {
        BodyContext {
            direction,
            server: self.header.server,
            in_record: InRecord {
                record_no: self.records + 1,
                moment,
            },
            limit: self.limit,
        }
    }
}
