//! What is kept of the events of a log, and emitting the next one to a sink.
//!
//! There are three ways to a sink: for a PUBLISH, for any packet, and for any other event. Each
//! checks the same refusals, and counts the event by what it does to its connection.

ghost use Rattle.std.specs.Prelude.{◌≡◌, ◌+◌, ◌-◌, Bool, [], ◌∷◌, ◌<◌, nat_le, ◌&&◌, not, List, None, OnOk, IfErr, unwrap_or};
ghost use Rattle.mq_packet.specs.Reading.{view};
ghost use Rattle.mq_packet.specs.Sizes.{size_with, remaining_length};
ghost use Rattle.mq_packet.specs.declared.packet.Packet.TheVariants as packets;
ghost use Rattle.mq_log.specs.Events.{Event as Completed, Placed};
ghost use Rattle.mq_log.specs.Flows.{item_event};
ghost use Rattle.mq_log.specs.declared.event.Item.TheVariants as items;
ghost use Rattle.mq_log.specs.Connections.{is_answer, is_connack, most_early_events};
ghost use Rattle.mq_log.specs.Reception.{AreEvents, Declines, event_of, item_of};
ghost use Rattle.mq_trace.specs.Emission.{decides, effect_of, event_refusal, connections_with, next_placed, NotEmitted};

use super::deframer::BodyContext;
use super::sink::Sink;
use mq_log::{Direction, Event, InRecord, Place3, Refusal};
use mq_packet::{Packet, Publish};

/// How many events a connection may have without its CONNACK, its OPEN counted.
const MOST_EARLY_EVENTS: u32 = 4096;

/// What an event does to its connection.
#[derive(Clone, Copy)]
pub enum Effect {
    /// It begins it: an OPEN.
    Begins,
    /// It answers it: a CONNACK from the server.
    Answers,
    /// It ends it: a CLOSE.
    Ends,
    /// None of these.
    Nothing,
}

impl Effect {
    // Whether the event may come however many came before it without a CONNACK.
    #[inline(always)]
    fn decides(self) -> bool
        ensures { result ≡ decides self }
    {
        match self {
            Effect::Answers | Effect::Ends => true,
            Effect::Begins | Effect::Nothing => false,
        }
    }
}

/// What is kept of the events of a log.
#[derive(Clone, Copy)]
pub struct Connections {
    /// How many events there are.
    pub events: u32,
    /// Whether a connection is open.
    pub connected: bool,
    /// Whether the latest connection's CONNACK came.
    pub connack_seen: bool,
    /// How many events came before the latest connection's OPEN.
    pub before_open: u32,
}

impl Connections {
    // The refusal that applies to an event with this effect, if the byte at this offset completes
    // it.
    #[inline(always)]
    fn refusal(self, at: u64, effect: Effect) -> Option<Refusal>
        ensures met { (server : Bool) (event : Completed) → effect_of server event ≡ effect → result ≡ event_refusal at server self event }
        ensures room { result ≡ None → self.events < 4294967295 }
    {
        if self.must_be_answered() && !effect.decides() {
            Some(Refusal::TooManyEarly(at))
        } else if self.events == u32::MAX {
            Some(Refusal::TooLong(at))
        } else {
            None
        }
    }

    // Whether a connection is open that has as many events as it may have without its CONNACK, and
    // the CONNACK hasn't come.
    #[inline(always)]
    fn must_be_answered(self) -> bool
        ensures { result ≡ (self.connected && (not self.connack_seen && nat_le most_early_events (self.events - self.before_open))) }
    {
        let waits = self.connected && !self.connack_seen;
        waits && self.events.saturating_sub(self.before_open) >= MOST_EARLY_EVENTS
    }

    // The place of the next event, which is in this record.
    #[inline(always)]
    fn next_place(self, in_record: InRecord) -> Place3
        requires { self.events < 4294967295 }
        ensures { result ≡ record { position = self.events + 1; record_no = in_record.record_no; moment = in_record.moment } }
    {
        Place3 {
            position: self.events + 1,
            record_no: in_record.record_no,
            moment: in_record.moment,
        }
    }

    // Counts one more event, which has this effect.
    #[inline(always)]
    fn count(&mut self, effect: Effect)
        requires { self.old.events < 4294967295 }
        ensures { (server : Bool) (event : Completed) → effect_of server event ≡ effect → self.new ≡ connections_with server self.old event }
    {
        let before = self.events;
        self.events += 1;
        match effect {
            Effect::Begins => {
                self.connected = true;
                self.connack_seen = false;
                self.before_open = before;
            }
            Effect::Answers => self.connack_seen = true,
            Effect::Ends => self.connected = false,
            Effect::Nothing => {}
        }
    }
}

/// Emits the next event, which has this effect and isn't a packet. The byte at this offset of the
/// log completes it, in this record.
///
/// # Errors
///
/// `TooManyEarly` if the open connection has 4,096 events and no CONNACK, and the event is neither
/// its CONNACK nor its CLOSE; `TooLong` if there are 4,294,967,295 events already; the sink's own
/// refusal. Each names this byte.
#[inline(always)]
pub fn emit<S: Sink>(
    connections: &mut Connections,
    at: u64,
    in_record: InRecord,
    effect: Effect,
    event: Event<'_>,
    sink: &mut S,
) -> Result<(), Refusal>
    requires effect { (server : Bool) → effect_of server (event_of event) ≡ effect }
    ensures met { (server : Bool) → OnOk result (event_refusal at server connections.old (event_of event.entry) ≡ None) }
    ensures kept { (server : Bool) → OnOk result (connections.new ≡ connections_with server connections.old (event_of event.entry)) }
    ensures receives { (earlier : List Placed) → S.agrees sink.old earlier → AreEvents (next_placed connections.old in_record (event_of event.entry) ∷ earlier)
        → OnOk result (S.agrees sink.new (next_placed connections.old in_record (event_of event.entry) ∷ earlier)) }
    ensures err { (server : Bool) → IfErr result (λ refusal. NotEmitted (Declines S.agrees S.refuses) at (event_refusal at server connections.old (event_of event.entry)) (next_placed connections.old in_record (event_of event.entry) ∷ []) sink.old sink.new refusal) }
{
    match connections.refusal(at, effect) {
        Some(met) => Err(met),
        None => match sink.event(connections.next_place(in_record), event) {
            Ok(()) => {
                connections.count(effect);
                Ok(())
            }
            Err(refusal) => Err(refusal.moved_to(at)),
        },
    }
}

/// Emits the next event, a packet of `size` bytes in a body.
///
/// # Errors
///
/// As `emit`.
#[inline(always)]
pub fn emit_packet<S: Sink>(
    context: &BodyContext,
    connections: &mut Connections,
    at: u64,
    size: u32,
    packet: Packet<'_>,
    sink: &mut S,
) -> Result<(), Refusal>
    requires { size ≡ unwrap_or (size_with (remaining_length packet)) 0 }
    ensures met { OnOk result (event_refusal at context.now.server connections.old (item_event context.now.direction (item_of (items.Packet packet.entry))) ≡ None) }
    ensures kept { OnOk result (connections.new ≡ connections_with context.now.server connections.old (item_event context.now.direction (item_of (items.Packet packet.entry)))) }
    ensures receives { (earlier : List Placed) → S.agrees sink.old earlier → AreEvents (next_placed connections.old context.now.in_record (item_event context.now.direction (item_of (items.Packet packet.entry))) ∷ earlier)
        → OnOk result (S.agrees sink.new (next_placed connections.old context.now.in_record (item_event context.now.direction (item_of (items.Packet packet.entry))) ∷ earlier)) }
    ensures err { IfErr result (λ refusal. NotEmitted (Declines S.agrees S.refuses) at (event_refusal at context.now.server connections.old (item_event context.now.direction (item_of (items.Packet packet.entry)))) (next_placed connections.old context.now.in_record (item_event context.now.direction (item_of (items.Packet packet.entry))) ∷ []) sink.old sink.new refusal) }
{
    let effect = packet_effect(context.server, context.direction, &packet);
    match connections.refusal(at, effect) {
        Some(met) => Err(met),
        None => {
            let place = connections.next_place(context.in_record);
            match sink.packet(place, context.direction, size, packet) {
                Ok(()) => {
                    connections.count(effect);
                    Ok(())
                }
                Err(refusal) => Err(refusal.moved_to(at)),
            }
        }
    }
}

/// Emits the next event, a PUBLISH of `size` bytes in a body.
///
/// # Errors
///
/// As `emit`.
#[inline(always)]
pub fn emit_publish<S: Sink>(
    context: &BodyContext,
    connections: &mut Connections,
    at: u64,
    size: u32,
    publish: Publish<'_>,
    sink: &mut S,
) -> Result<(), Refusal>
    requires { size ≡ unwrap_or (size_with (remaining_length (packets.Publish publish))) 0 }
    ensures met { OnOk result (event_refusal at context.now.server connections.old (item_event context.now.direction (item_of (items.Packet (packets.Publish publish.entry)))) ≡ None) }
    ensures kept { OnOk result (connections.new ≡ connections_with context.now.server connections.old (item_event context.now.direction (item_of (items.Packet (packets.Publish publish.entry))))) }
    ensures receives { (earlier : List Placed) → S.agrees sink.old earlier → AreEvents (next_placed connections.old context.now.in_record (item_event context.now.direction (item_of (items.Packet (packets.Publish publish.entry)))) ∷ earlier)
        → OnOk result (S.agrees sink.new (next_placed connections.old context.now.in_record (item_event context.now.direction (item_of (items.Packet (packets.Publish publish.entry)))) ∷ earlier)) }
    ensures err { IfErr result (λ refusal. NotEmitted (Declines S.agrees S.refuses) at (event_refusal at context.now.server connections.old (item_event context.now.direction (item_of (items.Packet (packets.Publish publish.entry))))) (next_placed connections.old context.now.in_record (item_event context.now.direction (item_of (items.Packet (packets.Publish publish.entry)))) ∷ []) sink.old sink.new refusal) }
{
    match connections.refusal(at, Effect::Nothing) {
        Some(met) => Err(met),
        None => {
            let place = connections.next_place(context.in_record);
            match sink.publish(place, context.direction, size, publish) {
                Ok(()) => {
                    connections.count(Effect::Nothing);
                    Ok(())
                }
                Err(refusal) => Err(refusal.moved_to(at)),
            }
        }
    }
}

// What a packet in this direction does to its connection.
#[inline(always)]
fn packet_effect(server: bool, direction: Direction, packet: &Packet<'_>) -> Effect
    ensures { effect_of server (item_event direction (item_of (items.Packet packet.now))) ≡ result }
{
    if is_answer(server, direction, packet) {
        Effect::Answers
    } else {
        Effect::Nothing
    }
}

// Whether a packet in this direction is a CONNACK from the server, which a tested server sends and
// a tested client receives (MQTT 5.0, section 3.2).
#[inline(always)]
fn is_answer(server: bool, direction: Direction, packet: &Packet<'_>) -> bool
    ensures { result ≡ is_answer server (item_event direction (item_of (items.Packet packet.now))) }
{
    match direction {
        Direction::Sent => server && is_connack(packet),
        Direction::Recv => !server && is_connack(packet),
    }
}

// Whether it is a CONNACK, whichever end sent it.
#[inline(always)]
fn is_connack(packet: &Packet<'_>) -> bool
    ensures { result ≡ is_connack (view packet.now) }
{
    match packet {
        Packet::Connack(_) => true,
        _ => false,
    }
}
