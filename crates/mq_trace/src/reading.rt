//! Reads a log: its header, its records, and what they carry.

ghost use Rattle.std.specs.Prelude.{◌≡◌, ◌≢◌, ◌+◌, ◌*◌, ◌^◌, ◌<◌, ◌≤◌, ◌∷◌, [], Bool, List, true, false, cond, Some, None, OnOk, IfOk, IfErr, IfSome, IsTrue, length, take, OnErr};
ghost use Rattle.mq_trace.specs.Keeping.{state_in, context_of, unfinished_by, IsSound, Comes, StepStops, HoldsHeader};
ghost use Rattle.mq_log.specs.Refusals.{header_refusal};
ghost use Rattle.mq_log.specs.Refusing.{refusal_offset};
ghost use Rattle.std.specs.Int.{w32, from_be_bytes};
ghost use Rattle.mq_trace.specs.declared.stage.Stage.TheVariants as stages;
ghost use Rattle.mq_log.specs.Framing.{kind_named, opens, moment_in, head_length};
ghost use Rattle.mq_log.specs.Events.{Placed, closed};
ghost use Rattle.mq_log.specs.Reception.{AreEvents, Declines, event_of};
ghost use Rattle.mq_trace.specs.Emission.{effect_of, event_refusal, next_placed, NotEmitted};
ghost use Rattle.mq_log.specs.Context.{fresh};
ghost use Rattle.mq_trace.specs.Heads.{head_of};
ghost use Rattle.mq_trace.specs.Settling.{IsStep};
ghost use Rattle.mq_trace.specs.Stepping.{err_of, after_header_byte, kind_refusal, kind_for, IsBodyHead, BeginsRecord, begun_body, deframer_for, EndsHead, EndsLength, refused_first, in_moment, in_record_of, marked, leaving};

mod bodies;

use super::connections::{Connections, Effect, emit};
use super::deframer::{Deframer, Step, unfinished_packets};
use super::head::{Head, HeadStep};
use super::sink::Sink;
use super::stage::Stage;
use mq_log::{
    Direction, Event, HEADER_LENGTH, Header, InRecord, LENGTH_END, RecordKind, Refusal,
    has_moments, head_length, header_after, header_refusal, longest_body,
};
use std::alloc::Global;

// The direction of the packets that a record carries, where this byte begins it and it is a SENT or
// RECV.
#[inline(always)]
fn direction_named(byte: u8) -> Option<Direction>
    ensures { IfSome result (λ direction. kind_named byte ≡ Some (kind_for direction)) }
{
    match byte {
        2 => Some(Direction::Sent),
        3 => Some(Direction::Recv),
        _ => None,
    }
}

// The moment of the record whose head is at the front of these bytes, in a log of this version.
#[inline(always)]
fn moment_of(version: u8, bytes: &[u8]) -> u64
    requires { head_length version ≤ length bytes.now }
    ensures { result ≡ moment_in (head_length version) bytes.now }
{
    if !has_moments(version) {
        return 0;
    }
    u64::from_be_bytes([
        bytes[5], bytes[6], bytes[7], bytes[8], bytes[9], bytes[10], bytes[11], bytes[12],
    ])
}

/// What is kept of a log.
#[derive(Drop)]
pub struct Reading {
    pub limit: u32,
    pub at: u64,
    pub header: Header,
    pub records: u32,
    pub stage: Stage,
    /// The moment of the record that is being read, from the end of its length on.
    pub moment: u64,
    pub sent: Deframer,
    pub recv: Deframer,
    pub connections: Connections,
}

impl Reading {
    /// What is kept before the first byte.
    pub fn new(alloc: Global, limit: u32) -> Self
        ensures limit { result.limit ≡ limit }
        ensures fresh { context_of result [] ≡ fresh }
        ensures between { result.stage ≡ Stage.Between }
        ensures sound { IsSound result }
    {
        Reading {
            limit,
            at: 0,
            header: Header {
                version: 0,
                server: false,
                releases: false,
            },
            records: 0,
            stage: Stage::Between,
            moment: 0,
            sent: Deframer::new(alloc),
            recv: Deframer::new(alloc),
            connections: Connections {
                events: 0,
                connected: false,
                connack_seen: false,
                before_open: 0,
            },
        }
    }

    /// Takes in as many of the next bytes of the log as belong together, and returns how many.
    /// There must be at least one byte.
    ///
    /// # Errors
    ///
    /// The refusal that applies first at one of them; the sink's own refusal; `Memory`.
    pub fn consume<S: Sink>(&mut self, bytes: &[u8], sink: &mut S) -> Result<usize, Refusal>
        requires some { 1 ≤ length bytes.now }
        requires sound { IsSound self.old }
        ensures count { IfOk result (λ n. (1 ≤ n) × (n ≤ length bytes.now)) }
        ensures sound { OnOk result (IsSound self.new) }
        ensures comes { IfOk result (λ n. Comes S.agrees self.old self.new (take n bytes.now) sink.old sink.new) }
        ensures stops { IfErr result (λ refusal. StepStops (Declines S.agrees S.refuses) self.old bytes.now sink.old sink.new refusal) }
        ensures stays { OnErr result (HoldsHeader self.old self.new) }
        ensures early { self.old.at < 8 → IfErr result (λ refusal. (refusal_offset refusal ≡ self.old.at) × (self.new.at ≡ self.old.at)) }
    {
        match self.body_head(bytes) {
            Some((direction, length, moment)) => {
                self.consume_record(direction, length, moment, bytes, sink)
            }
            None => self.resume(bytes, sink),
        }
    }

    // As `consume_record`, in two steps: the head, and then the body, whose bytes are this and
    // don't begin with a whole packet. It is a function of its own, since those of most bodies do.
    //
    // Errors: As `consume`.
    #[inline(never)]
    fn consume_parts<S: Sink>(
        &mut self,
        direction: Direction,
        left: u32,
        moment: u64,
        step: Step,
        bytes: &[u8],
        sink: &mut S,
    ) -> Result<usize, Refusal>
        requires sound { IsSound self.old }
        requires head { IsBodyHead self.old bytes.now direction left moment }
        requires step { IsStep (state_in (deframer_for self.old direction)) self.old.limit (begun_body (head_length self.old.header.version) left bytes.now) step }
        ensures count { IfOk result (λ n. (1 ≤ n) × (n ≤ length bytes.now)) }
        ensures sound { OnOk result (IsSound self.new) }
        ensures comes { IfOk result (λ n. Comes S.agrees self.old self.new (take n bytes.now) sink.old sink.new) }
        ensures stops { IfErr result (λ refusal. StepStops (Declines S.agrees S.refuses) self.old bytes.now sink.old sink.new refusal) }
        ensures stays { OnErr result (HoldsHeader self.old self.new) }
    {
        let head = head_length(self.header.version);
        self.skip_head(direction, left, moment);
        if left == 0 || bytes.len() == head {
            return Ok(head);
        }
        match self.consume_part(direction, left, step, &bytes[head..], sink) {
            Ok(count) => Ok(head + count),
            Err(refusal) => Err(refusal),
        }
    }

    // Takes in the head of a SENT or RECV of this moment that carries `left` bytes in this
    // direction.
    #[inline(always)]
    fn skip_head(&mut self, direction: Direction, left: u32, moment: u64)
        requires between { self.old.stage ≡ stages.Between }
        requires room { self.old.at + head_length self.old.header.version < 2 ^ 64 }
        requires numbered { self.old.records < 4294967295 }
        ensures { self.new ≡ leaving (record self.old { at = self.old.at + head_length self.old.header.version; moment = moment }) direction left }
    {
        self.at += head_length(self.header.version) as u64;
        self.moment = moment;
        self.enter(direction, left);
    }

    // The direction and the length of the body, and the record's moment, where the next bytes are
    // the head of a SENT or RECV that meets no refusal.
    #[inline(always)]
    fn body_head(&self, bytes: &[u8]) -> Option<(Direction, u32, u64)>
        ensures { IfSome result (λ body. IsBodyHead self.now bytes.now body.0 body.1 body.2) }
    {
        if self.at < HEADER_LENGTH {
            return None;
        }
        if bytes.len() < head_length(self.header.version) {
            return None;
        }
        if !self.takes_bodies() {
            return None;
        }
        let direction = direction_named(bytes[0])?;
        let length = u32::from_be_bytes([bytes[1], bytes[2], bytes[3], bytes[4]]);
        if longest_body(self.header.version) < length {
            return None;
        }
        Some((direction, length, moment_of(self.header.version, bytes)))
    }

    // Whether the next byte can begin a record that carries packets.
    #[inline(always)]
    fn takes_bodies(&self) -> bool
        ensures { IsTrue result → (self.now.stage ≡ stages.Between) × (self.now.connections.connected ≡ true) × (self.now.records < 4294967295) }
    {
        self.stage.is_between() && self.connections.connected && self.records != u32::MAX
    }

    // Takes in the next bytes, if they aren't the head of a SENT or RECV: of large packets most are
    // in the middle of a body.
    //
    // Errors: As `consume`.
    #[inline(always)]
    fn resume<S: Sink>(&mut self, bytes: &[u8], sink: &mut S) -> Result<usize, Refusal>
        requires some { 1 ≤ length bytes.now }
        requires sound { IsSound self.old }
        ensures count { IfOk result (λ n. (1 ≤ n) × (n ≤ length bytes.now)) }
        ensures sound { OnOk result (IsSound self.new) }
        ensures comes { IfOk result (λ n. Comes S.agrees self.old self.new (take n bytes.now) sink.old sink.new) }
        ensures stops { IfErr result (λ refusal. StepStops (Declines S.agrees S.refuses) self.old bytes.now sink.old sink.new refusal) }
        ensures stays { OnErr result (HoldsHeader self.old self.new) }
        ensures early { self.old.at < 8 → IfErr result (λ refusal. (refusal_offset refusal ≡ self.old.at) × (self.new.at ≡ self.old.at)) }
    {
        match self.stage {
            Stage::Body { direction, left } => self.consume_body(direction, left, bytes, sink),
            _ => self.go_on(bytes, sink),
        }
    }

    // Takes in the next bytes, whatever they are: of the header, of a record's head, of the body of
    // a SENT or RECV or of a RELEASE.
    //
    // Errors: As `consume`.
    #[inline(never)]
    fn go_on<S: Sink>(&mut self, bytes: &[u8], sink: &mut S) -> Result<usize, Refusal>
        requires some { 1 ≤ length bytes.now }
        requires sound { IsSound self.old }
        ensures count { IfOk result (λ n. (1 ≤ n) × (n ≤ length bytes.now)) }
        ensures sound { OnOk result (IsSound self.new) }
        ensures comes { IfOk result (λ n. Comes S.agrees self.old self.new (take n bytes.now) sink.old sink.new) }
        ensures stops { IfErr result (λ refusal. StepStops (Declines S.agrees S.refuses) self.old bytes.now sink.old sink.new refusal) }
        ensures stays { OnErr result (HoldsHeader self.old self.new) }
        ensures early { self.old.at < 8 → IfErr result (λ refusal. (refusal_offset refusal ≡ self.old.at) × (self.new.at ≡ self.old.at)) }
    {
        if self.at < HEADER_LENGTH {
            return match self.consume_header(bytes[0]) {
                Ok(()) => Ok(1),
                Err(refusal) => Err(refusal),
            };
        }
        match self.stage {
            Stage::Between => self.consume_head(bytes, sink),
            Stage::Head(head) => match self.go_on_head(head, bytes[0], sink) {
                Ok(()) => Ok(1),
                Err(refusal) => Err(refusal),
            },
            Stage::Moment {
                kind,
                length,
                count,
            } => match self.go_on_moment(kind, length, count, bytes[0], sink) {
                Ok(()) => Ok(1),
                Err(refusal) => Err(refusal),
            },
            Stage::Body { direction, left } => self.go_on_body(direction, left, bytes, sink),
            Stage::Release(None) => {
                self.at += 1;
                self.stage = Stage::Release(Some(bytes[0]));
                Ok(1)
            }
            Stage::Release(Some(high)) => match self.end_release(high, bytes[0], sink) {
                Ok(()) => Ok(1),
                Err(refusal) => Err(refusal),
            },
        }
    }

    // As `consume_body`. It is a function of its own, so that `go_on` has no room for it: `resume`
    // takes in bodies before.
    //
    // Errors: As `consume`.
    #[inline(never)]
    fn go_on_body<S: Sink>(
        &mut self,
        direction: Direction,
        left: u32,
        bytes: &[u8],
        sink: &mut S,
    ) -> Result<usize, Refusal>
        requires some { 1 ≤ length bytes.now }
        requires sound { IsSound self.old }
        requires within { self.old.stage ≡ stages.Body direction left }
        ensures count { IfOk result (λ n. (1 ≤ n) × (n ≤ length bytes.now)) }
        ensures sound { OnOk result (IsSound self.new) }
        ensures comes { IfOk result (λ n. Comes S.agrees self.old self.new (take n bytes.now) sink.old sink.new) }
        ensures stops { IfErr result (λ refusal. StepStops (Declines S.agrees S.refuses) self.old bytes.now sink.old sink.new refusal) }
        ensures stays { OnErr result (HoldsHeader self.old self.new) }
    {
        self.consume_body(direction, left, bytes, sink)
    }

    // Takes in a byte of the header.
    //
    // Errors: The refusal that the byte gives.
    fn consume_header(&mut self, byte: u8) -> Result<(), Refusal>
        requires begun { self.old.at < 8 }
        ensures refused { header_refusal self.old.at byte ≡ err_of result }
        ensures offset { IfErr result (λ refusal. refusal_offset refusal ≡ self.old.at) }
        ensures kept { OnOk result (self.new ≡ after_header_byte self.old byte) }
        ensures same { OnErr result (self.new ≡ self.old) }
    {
        if let Some(refusal) = header_refusal(self.at, byte) {
            return Err(refusal);
        }
        self.header = header_after(self.header, self.at, byte);
        self.at += 1;
        Ok(())
    }

    // Takes in a record's kind and length at once, if all of both is there, else its first byte.
    #[inline(always)]
    fn consume_head<S: Sink>(&mut self, bytes: &[u8], sink: &mut S) -> Result<usize, Refusal>
        requires some { 1 ≤ length bytes.now }
        requires sound { IsSound self.old }
        requires past_header { 8 ≤ self.old.at }
        requires between { self.old.stage ≡ stages.Between }
        ensures count { IfOk result (λ n. (1 ≤ n) × (n ≤ length bytes.now)) }
        ensures sound { OnOk result (IsSound self.new) }
        ensures comes { IfOk result (λ n. Comes S.agrees self.old self.new (take n bytes.now) sink.old sink.new) }
        ensures stops { IfErr result (λ refusal. StepStops (Declines S.agrees S.refuses) self.old bytes.now sink.old sink.new refusal) }
        ensures stays { OnErr result (HoldsHeader self.old self.new) }
    {
        match self.begin_record(bytes[0]) {
            Ok(kind) => {
                if bytes.len() < LENGTH_END {
                    return Ok(1);
                }
                match self.consume_length(kind, bytes[1], bytes[2], bytes[3], bytes[4], sink) {
                    Ok(()) => Ok(LENGTH_END),
                    Err(refusal) => Err(refusal),
                }
            }
            Err(refusal) => Err(refusal),
        }
    }

    // Takes in all four bytes of a record's length, after its first byte.
    #[inline(always)]
    fn consume_length<S: Sink>(
        &mut self,
        kind: RecordKind,
        a: u8,
        b: u8,
        c: u8,
        d: u8,
        sink: &mut S,
    ) -> Result<(), Refusal>
        requires sound { IsSound self.old }
        requires within { self.old.stage ≡ stages.Head (head_of kind 0 0) }
        ensures sound { OnOk result (IsSound self.new) }
        ensures comes { OnOk result (Comes S.agrees self.old self.new (a ∷ b ∷ c ∷ d ∷ []) sink.old sink.new) }
        ensures stops { IfErr result (λ refusal. StepStops (Declines S.agrees S.refuses) self.old (a ∷ b ∷ c ∷ d ∷ []) sink.old sink.new refusal) }
        ensures stays { OnErr result (HoldsHeader self.old self.new) }
    {
        let head = self.skip_length(kind, a, b, c);
        self.go_on_head(head, d, sink)
    }

    // Takes in a record's first byte.
    //
    // Errors: The refusal that the byte gives.
    #[inline(always)]
    fn begin_record(&mut self, byte: u8) -> Result<RecordKind, Refusal>
        requires sound { IsSound self.old }
        requires between { self.old.stage ≡ stages.Between }
        ensures named { IfOk result (λ kind. kind_named byte ≡ Some kind) }
        ensures met { IfOk result (λ kind. kind_refusal self.old kind ≡ None) }
        ensures room { OnOk result (self.old.records < 4294967295) }
        ensures begins { IfOk result (λ kind. BeginsRecord self.old self.new kind) }
        ensures refused { IfErr result (λ refusal. refused_first self.old (kind_named byte) ≡ Some refusal) }
        ensures same { OnErr result (self.new ≡ self.old) }
    {
        let releases = self.header.releases;
        let connected = self.connections.connected;
        match Head::from_byte(byte, self.at, releases, connected, self.records) {
            Ok(head) => {
                self.begin(head);
                Ok(head.kind)
            }
            Err(refusal) => Err(refusal),
        }
    }

    // Sets the state after the first byte of a record, with which its head is this.
    #[inline(always)]
    fn begin(&mut self, head: Head)
        requires { self.old.at + 1 < 2 ^ 64 }
        ensures is { self.new ≡ record self.old { at = self.old.at + 1; stage = stages.Head head; sent = self.new.sent; recv = self.new.recv } }
        ensures sent { state_in self.new.sent ≡ cond (opens (Some head.kind)) (record { unfinished = []; lost = false }) (state_in self.old.sent) }
        ensures recv { state_in self.new.recv ≡ cond (opens (Some head.kind)) (record { unfinished = []; lost = false }) (state_in self.old.recv) }
    {
        if head.kind == RecordKind::Open {
            self.sent.clear();
            self.recv.clear();
        }
        self.at += 1;
        self.stage = Stage::Head(head);
    }

    // Takes in the first three bytes of a record's length, and returns its head.
    #[inline(always)]
    fn skip_length(&mut self, kind: RecordKind, a: u8, b: u8, c: u8) -> Head
        requires { self.old.at + 3 < 2 ^ 64 }
        ensures head { result ≡ head_of kind 3 (from_be_bytes w32 (0 ∷ a ∷ b ∷ c ∷ [])) }
        ensures kept { self.new ≡ record self.old { at = self.old.at + 3; stage = stages.Head result } }
    {
        let head = Head {
            kind,
            count: 3,
            number: u32::from_be_bytes([0, a, b, c]),
        };
        self.at += 3;
        self.stage = Stage::Head(head);
        head
    }

    // Takes in the next byte of a record's length, after this much of its head.
    #[inline(always)]
    fn go_on_head<S: Sink>(&mut self, head: Head, byte: u8, sink: &mut S) -> Result<(), Refusal>
        requires sound { IsSound self.old }
        requires within { self.old.stage ≡ stages.Head head }
        ensures sound { OnOk result (IsSound self.new) }
        ensures comes { OnOk result (Comes S.agrees self.old self.new (byte ∷ []) sink.old sink.new) }
        ensures stops { IfErr result (λ refusal. StepStops (Declines S.agrees S.refuses) self.old (byte ∷ []) sink.old sink.new refusal) }
        ensures stays { OnErr result (HoldsHeader self.old self.new) }
    {
        match head.step(self.header.version, byte) {
            HeadStep::GoesOn { count, number } => {
                self.at += 1;
                self.stage = Stage::Head(Head {
                    kind: head.kind,
                    count,
                    number,
                });
                Ok(())
            }
            HeadStep::Ends(length) => self.end_length(head.kind, length, byte, sink),
            HeadStep::Barred => Err(Refusal::Length(self.at)),
        }
    }

    // Takes in the last byte of the length of a record of this kind, which is this number.
    #[inline(always)]
    fn end_length<S: Sink>(
        &mut self,
        kind: RecordKind,
        length: u32,
        byte: u8,
        sink: &mut S,
    ) -> Result<(), Refusal>
        requires sound { IsSound self.old }
        requires ends { EndsLength self.old kind length byte }
        ensures sound { OnOk result (IsSound self.new) }
        ensures comes { OnOk result (Comes S.agrees self.old self.new (byte ∷ []) sink.old sink.new) }
        ensures stops { IfErr result (λ refusal. StepStops (Declines S.agrees S.refuses) self.old (byte ∷ []) sink.old sink.new refusal) }
        ensures stays { OnErr result (HoldsHeader self.old self.new) }
    {
        if has_moments(self.header.version) {
            self.begin_moment(kind, length);
            return Ok(());
        }
        self.end_head(kind, length, 0, byte, sink)
    }

    // Sets the state after the length of a record that has a moment.
    #[inline(always)]
    fn begin_moment(&mut self, kind: RecordKind, length: u32)
        requires { self.old.at + 1 < 2 ^ 64 }
        ensures { self.new ≡ in_moment self.old (self.old.at + 1) kind length 0 0 }
    {
        self.at += 1;
        self.moment = 0;
        self.stage = Stage::Moment {
            kind,
            length,
            count: 0,
        };
    }

    // Takes in the next byte of a record's moment, after `count` bytes of it.
    fn go_on_moment<S: Sink>(
        &mut self,
        kind: RecordKind,
        length: u32,
        count: u8,
        byte: u8,
        sink: &mut S,
    ) -> Result<(), Refusal>
        requires sound { IsSound self.old }
        requires within { self.old.stage ≡ stages.Moment kind length count }
        ensures sound { OnOk result (IsSound self.new) }
        ensures comes { OnOk result (Comes S.agrees self.old self.new (byte ∷ []) sink.old sink.new) }
        ensures stops { IfErr result (λ refusal. StepStops (Declines S.agrees S.refuses) self.old (byte ∷ []) sink.old sink.new refusal) }
        ensures stays { OnErr result (HoldsHeader self.old self.new) }
    {
        let moment = self.moment * 256 + u64::from(byte);
        if count == 7 {
            return self.end_head(kind, length, moment, byte, sink);
        }
        self.at += 1;
        self.moment = moment;
        self.stage = Stage::Moment {
            kind,
            length,
            count: count + 1,
        };
        Ok(())
    }

    // Takes in the last byte of the head of a record of this kind and moment, whose body has this
    // length. It is a function of its own, so that its events take no stack while packets are read.
    #[inline(never)]
    fn end_head<S: Sink>(
        &mut self,
        kind: RecordKind,
        length: u32,
        moment: u64,
        byte: u8,
        sink: &mut S,
    ) -> Result<(), Refusal>
        requires sound { IsSound self.old }
        requires ends { EndsHead self.old kind length moment byte }
        ensures sound { OnOk result (IsSound self.new) }
        ensures comes { OnOk result (Comes S.agrees self.old self.new (byte ∷ []) sink.old sink.new) }
        ensures stops { IfErr result (λ refusal. StepStops (Declines S.agrees S.refuses) self.old (byte ∷ []) sink.old sink.new refusal) }
        ensures stays { OnErr result (HoldsHeader self.old self.new) }
    {
        match kind {
            RecordKind::Sent => {
                self.begin_body(Direction::Sent, length, moment);
                Ok(())
            }
            RecordKind::Recv => {
                self.begin_body(Direction::Recv, length, moment);
                Ok(())
            }
            RecordKind::Open => self.end_mark(Effect::Begins, Event::Open, moment, sink),
            RecordKind::Close => self.end_close(moment, sink),
            RecordKind::Rest => self.end_mark(Effect::Nothing, Event::Rest, moment, sink),
            RecordKind::Release => {
                self.begin_release(moment);
                Ok(())
            }
        }
    }

    // Takes in the last byte of the head of a RELEASE of this moment.
    fn begin_release(&mut self, moment: u64)
        requires { self.old.at + 1 < 2 ^ 64 }
        ensures { self.new ≡ record self.old { at = self.old.at + 1; stage = stages.Release None; moment = moment } }
    {
        self.at += 1;
        self.moment = moment;
        self.stage = Stage::Release(None);
    }

    // Ends a record of this moment with an event that isn't a packet and has this effect.
    //
    // Errors: The refusal that applies to the event, or the sink's own refusal, at the byte that is
    // being taken in.
    fn end_mark<S: Sink>(
        &mut self,
        effect: Effect,
        event: Event<'_>,
        moment: u64,
        sink: &mut S,
    ) -> Result<(), Refusal>
        requires effect { (server : Bool) → effect_of server (event_of event) ≡ effect }
        requires room { self.old.at + 1 < 2 ^ 64 }
        requires numbered { self.old.records < 4294967295 }
        ensures met { OnOk result (event_refusal self.old.at self.old.header.server self.old.connections (event_of event.entry) ≡ None) }
        ensures kept { OnOk result (self.new ≡ marked self.old (event_of event.entry)) }
        ensures receives { (earlier : List Placed) → S.agrees sink.old earlier → AreEvents (next_placed self.old.connections (in_record_of self.old moment) (event_of event.entry) ∷ earlier)
            → OnOk result (S.agrees sink.new (next_placed self.old.connections (in_record_of self.old moment) (event_of event.entry) ∷ earlier)) }
        ensures err { IfErr result (λ refusal. NotEmitted (Declines S.agrees S.refuses) self.old.at (event_refusal self.old.at self.old.header.server self.old.connections (event_of event.entry)) (next_placed self.old.connections (in_record_of self.old moment) (event_of event.entry) ∷ []) sink.old sink.new refusal) }
        ensures stays { OnErr result (HoldsHeader self.old self.new) }
    {
        match emit(
            &mut self.connections,
            self.at,
            InRecord {
                record_no: self.records + 1,
                moment,
            },
            effect,
            event,
            sink,
        ) {
            Ok(()) => {
                self.end_record();
                Ok(())
            }
            Err(refusal) => Err(refusal),
        }
    }

    // Ends a CLOSE of this moment.
    //
    // Errors: As `end_mark`.
    fn end_close<S: Sink>(&mut self, moment: u64, sink: &mut S) -> Result<(), Refusal>
        requires room { self.old.at + 1 < 2 ^ 64 }
        requires numbered { self.old.records < 4294967295 }
        ensures met { OnOk result (event_refusal self.old.at self.old.header.server self.old.connections (closed (unfinished_by self.old)) ≡ None) }
        ensures kept { OnOk result (self.new ≡ marked self.old (closed (unfinished_by self.old))) }
        ensures receives { (earlier : List Placed) → S.agrees sink.old earlier → AreEvents (next_placed self.old.connections (in_record_of self.old moment) (closed (unfinished_by self.old)) ∷ earlier)
            → OnOk result (S.agrees sink.new (next_placed self.old.connections (in_record_of self.old moment) (closed (unfinished_by self.old)) ∷ earlier)) }
        ensures err { IfErr result (λ refusal. NotEmitted (Declines S.agrees S.refuses) self.old.at (event_refusal self.old.at self.old.header.server self.old.connections (closed (unfinished_by self.old))) (next_placed self.old.connections (in_record_of self.old moment) (closed (unfinished_by self.old)) ∷ []) sink.old sink.new refusal) }
        ensures stays { OnErr result (HoldsHeader self.old self.new) }
    {
        let unfinished = unfinished_packets(&self.sent, &self.recv);
        match emit(
            &mut self.connections,
            self.at,
            InRecord {
                record_no: self.records + 1,
                moment,
            },
            Effect::Ends,
            Event::Close { unfinished },
            sink,
        ) {
            Ok(()) => {
                self.end_record();
                Ok(())
            }
            Err(refusal) => Err(refusal),
        }
    }

    // Ends a RELEASE of this Packet Identifier.
    fn end_release<S: Sink>(&mut self, high: u8, low: u8, sink: &mut S) -> Result<(), Refusal>
        requires sound { IsSound self.old }
        requires within { self.old.stage ≡ stages.Release (Some high) }
        ensures sound { OnOk result (IsSound self.new) }
        ensures comes { OnOk result (Comes S.agrees self.old self.new (low ∷ []) sink.old sink.new) }
        ensures stops { IfErr result (λ refusal. StepStops (Declines S.agrees S.refuses) self.old (low ∷ []) sink.old sink.new refusal) }
        ensures stays { OnErr result (HoldsHeader self.old self.new) }
    {
        let identifier = u16::from_be_bytes([high, low]);
        let event = Event::Release(identifier);
        self.end_mark(Effect::Nothing, event, self.moment, sink)
    }

    // Takes in the last byte of a record.
    fn end_record(&mut self)
        requires room { self.old.at + 1 < 2 ^ 64 }
        requires numbered { self.old.records < 4294967295 }
        ensures { self.new ≡ record self.old { at = self.old.at + 1; records = self.old.records + 1; stage = stages.Between } }
    {
        self.at += 1;
        self.records += 1;
        self.stage = Stage::Between;
    }

    // Takes in the last byte of the head of a record of this moment that carries `length` bytes in
    // this direction.
    #[inline(always)]
    fn begin_body(&mut self, direction: Direction, length: u32, moment: u64)
        requires room { self.old.at + 1 < 2 ^ 64 }
        requires numbered { self.old.records < 4294967295 }
        ensures { self.new ≡ leaving (record self.old { at = self.old.at + 1; moment = moment }) direction length }
    {
        self.at += 1;
        self.moment = moment;
        self.leave(direction, length);
    }

    // Sets the state, which is that inside of a record, with `left` bytes of its body still to
    // come.
    #[inline(always)]
    fn leave(&mut self, direction: Direction, left: u32)
        requires numbered { self.old.records < 4294967295 }
        ensures { self.new ≡ leaving self.old direction left }
    {
        if left == 0 {
            self.stage = Stage::Between;
        }
        self.enter(direction, left);
    }
}
