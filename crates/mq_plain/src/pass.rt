//! One pass over the events of a list, in which an evaluator judges each.
//!
//! An event is judged as soon as the fate of its connection is decided: at once, or, if it comes
//! before the CONNACK, with the event that decides the connection. Few events are spoken of: a
//! quiet one costs a test, and each event is judged once, whatever the number of statements. A REST
//! looks back only if something before it asked for an answer.
ghost use Rattle.std.specs.Prelude.{◌≡◌, ◌∷◌, ◌&&◌, ◌||◌, false, not, cond, None, is_some, length, reverse, OnOk, OnErr};
ghost use Rattle.std.specs.Option.{option_or};
ghost use Rattle.mq_rules.specs.Notes.{is_open, is_rest};
ghost use Rattle.mq_rules.specs.Moments.{newest, IsPlaced};
ghost use Rattle.mq_rules.specs.Connections.{gives_fate};
ghost use Rattle.mq_rules.specs.Under.{turns_with};
ghost use Rattle.mq_rules.specs.Faults.{Grows, GrowsWithin};
ghost use Rattle.mq_rules.specs.Growing.{Gains, GainsWithin, GrowsBy, GrowsByWithin};
ghost use Rattle.mq_plain.specs.Events.{AreSilent, asks as asks_for, is_asking as asking, is_idle as idle, is_quiet as quiet, is_spoken_of as spoken_of, is_unacknowledged as unacknowledged, some_asks};
ghost use Rattle.mq_plain.specs.Waiting.{AreOnSessions, IsKept, turns_after};

use crate::binding::is_binding_rest;
use crate::connection::fate_after;
use crate::evaluator::Evaluator;
use crate::turn::Turn;
use mq_packet::Qos;
use mq_rules::{Fate, Faults, ItemNote, Memory, Note, PacketFields, Role, Seen, Tested};
use std::alloc::Global;

/// Judges each event by what comes before it in the list, the oldest first. A pair that already has
/// a fault keeps it.
///
/// # Errors
///
/// `Memory` if there is no memory. Some of the faults of the evaluator's statements may then have
/// been added, but no others.
pub fn judge_each<E: Evaluator>(
    alloc: Global,
    tested: Tested,
    seen: &[Seen],
    faults: &mut Faults,
) -> Result<(), Memory>
    requires silent { AreSilent E.chosen }
    requires on_sessions { AreOnSessions E.chosen }
    ensures ok { IsPlaced (reverse seen.now) → OnOk result (Grows E.chosen tested (reverse seen.now) faults.old faults.new) }
    ensures memory { IsPlaced (reverse seen.now) → OnErr result (GrowsWithin E.chosen tested (reverse seen.now) faults.old faults.new) }
{
    let evaluator = E::of(tested);
    let mut kept = Kept {
        fate: Some(Fate::Void),
        opened: 0,
        asked: false,
    };
    for (i, event) in seen.iter().enumerate() {
        if is_passed_over(kept, tested.role, &event.note) {
            continue;
        }
        let before = &seen[..i];
        judge_event(&evaluator, alloc, tested, kept, event, before, faults)?;
        kept = kept_after(kept, tested.role, event, before);
    }
    Ok(())
}

/// What is kept of the events before the next one.
#[derive(Clone, Copy)]
struct Kept {
    /// The fate of the latest connection, if it is decided (MQTT 5.0, section 3.2.2).
    fate: Option<Fate>,
    /// How many events come before its OPEN.
    opened: usize,
    /// Whether some event asks for an answer, or may have to be sent again.
    asked: bool,
}

/// What the events of a connection are judged by, once its fate is decided.
#[derive(Clone, Copy)]
struct Decision {
    /// The end that is judged.
    tested: Tested,
    /// The fate.
    fate: Fate,
    /// The position of the event that decides what is judged.
    position: u32,
    /// Whether some event so far asks for an answer, or may have to be sent again.
    asked: bool,
}

// Whether an event is seen at once to be quiet, and to leave what is kept as it is.
#[inline(always)]
fn is_passed_over(kept: Kept, role: Role, note: &Note) -> bool
    ensures { result ≡ (is_some kept.fate && idle role note.now) }
{
    kept.fate.is_some() && is_idle(role, note)
}

// Whether it is a PUBLISH of QoS 0 that a client sends, or that is received.
#[inline(always)]
fn is_idle(role: Role, note: &Note) -> bool
    ensures { result ≡ idle role note.now }
{
    match note {
        Note::Sent(ItemNote::Packet(packet)) => {
            matches!(role, Role::Client) && is_unacknowledged(&packet.fields)
        }
        Note::Recv(ItemNote::Packet(packet)) => is_unacknowledged(&packet.fields),
        _ => false,
    }
}

// Whether a packet is a PUBLISH of QoS 0.
#[inline(always)]
fn is_unacknowledged(fields: &PacketFields) -> bool
    ensures { result ≡ unacknowledged fields.now }
{
    match fields {
        PacketFields::Publish(publish) => matches!(publish.qos, Qos::AtMostOnce),
        _ => false,
    }
}

// Judges an event that has these events before it, of which this is kept. If it leaves its
// connection undecided, it waits; and if it decides it, the events that waited are judged too.
#[inline(always)]
fn judge_event<E: Evaluator>(
    evaluator: &E,
    alloc: Global,
    tested: Tested,
    kept: Kept,
    event: &Seen,
    before: &[Seen],
    faults: &mut Faults,
) -> Result<(), Memory>
    requires silent { AreSilent E.chosen }
    requires on_sessions { AreOnSessions E.chosen }
    ensures ok { E.is_for evaluator.now tested → IsPlaced (event.now ∷ reverse before.now) → IsKept kept tested.role (reverse before.now) → OnOk result (GrowsBy E.chosen tested event.now (reverse before.now) faults.old faults.new) }
    ensures memory { E.is_for evaluator.now tested → IsPlaced (event.now ∷ reverse before.now) → IsKept kept tested.role (reverse before.now) → OnErr result (GrowsByWithin E.chosen tested event.now (reverse before.now) faults.old faults.new) }
{
    let Some(fate) = fate_after(kept.fate, tested.role, event, before) else {
        return Ok(());
    };
    let decision = Decision {
        tested,
        fate,
        position: event.place.position,
        asked: kept.asked,
    };
    let first = settled_by(kept, before);
    judge_waiting(evaluator, alloc, decision, first, before, faults)?;
    judge_next(evaluator, alloc, decision, event, before, faults)?;
    Ok(())
}

// How many of these events, of which this is kept, don't wait.
#[inline(always)]
fn settled_by(kept: Kept, before: &[Seen]) -> usize
    ensures { result ≡ cond (is_some kept.fate) (length before.now) kept.opened }
{
    if kept.fate.is_some() {
        return before.len();
    }
    kept.opened
}

// Judges these events but the first ones, which were judged before.
fn judge_waiting<E: Evaluator>(
    evaluator: &E,
    alloc: Global,
    decision: Decision,
    first: usize,
    seen: &[Seen],
    faults: &mut Faults,
) -> Result<(), Memory>
    requires silent { AreSilent E.chosen }
    ensures ok { E.is_for evaluator.now decision.tested → IsPlaced (reverse seen.now) → (decision.asked ≡ false → some_asks (reverse seen.now) ≡ false) → OnOk result (Gains (λ k r. E.chosen r && turns_after decision.tested decision.fate first (reverse seen.now) k r) decision.tested (reverse seen.now) decision.position faults.old faults.new) }
    ensures memory { E.is_for evaluator.now decision.tested → IsPlaced (reverse seen.now) → (decision.asked ≡ false → some_asks (reverse seen.now) ≡ false) → OnErr result (GainsWithin (λ k r. E.chosen r && turns_after decision.tested decision.fate first (reverse seen.now) k r) decision.tested (reverse seen.now) decision.position faults.old faults.new) }
{
    for i in first..seen.len() {
        judge_next(evaluator, alloc, decision, &seen[i], &seen[..i], faults)?;
    }
    Ok(())
}

// Judges an event of a decided connection that has these events before it. Nothing is looked up for
// a quiet one, nor for a REST before which nothing asks.
#[inline(always)]
fn judge_next<E: Evaluator>(
    evaluator: &E,
    alloc: Global,
    decision: Decision,
    event: &Seen,
    before: &[Seen],
    faults: &mut Faults,
) -> Result<(), Memory>
    requires silent { AreSilent E.chosen }
    ensures ok { E.is_for evaluator.now decision.tested → IsPlaced (event.now ∷ reverse before.now) → (decision.asked ≡ false → some_asks (reverse before.now) ≡ false) → OnOk result (Gains (λ k r. E.chosen r && turns_with decision.tested decision.fate event.now (reverse before.now) k r) decision.tested (event.now ∷ reverse before.now) decision.position faults.old faults.new) }
    ensures memory { E.is_for evaluator.now decision.tested → IsPlaced (event.now ∷ reverse before.now) → OnErr result (GainsWithin (λ k r. E.chosen r && turns_with decision.tested decision.fate event.now (reverse before.now) k r) decision.tested (event.now ∷ reverse before.now) decision.position faults.old faults.new) }
{
    if is_quiet(decision.tested.role, &event.note) {
        return Ok(());
    }
    if finds_nothing(decision.asked, &event.note) {
        return Ok(());
    }
    judge_spoken(evaluator, alloc, decision, event, before, faults)
}

// Judges an event of a decided connection that has these events before it. It stays apart, so that
// what few events need takes no room where the others are passed over.
#[inline(never)]
fn judge_spoken<E: Evaluator>(
    evaluator: &E,
    alloc: Global,
    decision: Decision,
    event: &Seen,
    before: &[Seen],
    faults: &mut Faults,
) -> Result<(), Memory>
    ensures ok { E.is_for evaluator.now decision.tested → IsPlaced (event.now ∷ reverse before.now) → OnOk result (Gains (λ k r. E.chosen r && turns_with decision.tested decision.fate event.now (reverse before.now) k r) decision.tested (event.now ∷ reverse before.now) decision.position faults.old faults.new) }
    ensures memory { E.is_for evaluator.now decision.tested → IsPlaced (event.now ∷ reverse before.now) → OnErr result (GainsWithin (λ k r. E.chosen r && turns_with decision.tested decision.fate event.now (reverse before.now) k r) decision.tested (event.now ∷ reverse before.now) decision.position faults.old faults.new) }
{
    let turn = Turn {
        tested: decision.tested,
        fate: decision.fate,
        decided: decision.position,
        rests: is_binding_rest(decision.tested.role, event, before),
    };
    evaluator.judge_at(alloc, turn, event, before, faults)
}

// Whether no statement on sessions is judged at the event: it is neither a REST nor a RELEASE, nor
// a packet that the tested end sends in a session, except a client's PUBLISH of QoS 0.
#[inline(always)]
fn is_quiet(role: Role, note: &Note) -> bool
    ensures { result ≡ quiet role note.now }
{
    match note {
        Note::Sent(ItemNote::Packet(packet)) => !is_spoken_of(role, &packet.fields),
        Note::Rest | Note::Release(_) => false,
        _ => true,
    }
}

// Whether a packet needs a session, and isn't a client's PUBLISH of QoS 0.
#[inline(always)]
fn is_spoken_of(role: Role, fields: &PacketFields) -> bool
    ensures { result ≡ spoken_of role fields.now }
{
    match fields {
        PacketFields::Publish(publish) => {
            matches!(role, Role::Server) || !matches!(publish.qos, Qos::AtMostOnce)
        }
        _ => fields.is_session_packet(),
    }
}

// Whether the event is a REST that shows nothing, since no event before it asks for an answer.
#[inline(always)]
fn finds_nothing(asked: bool, note: &Note) -> bool
    ensures { result ≡ (is_rest note.now && not asked) }
{
    note.is_rest() && !asked
}

// What is kept after an event that has these events before it, of which this is kept.
#[inline(always)]
fn kept_after(kept: Kept, role: Role, event: &Seen, before: &[Seen]) -> Kept
    ensures fate { result.fate ≡ cond (is_open event.now.note) None (option_or kept.fate (gives_fate role (newest event.now (reverse before.now)))) }
    ensures opened { result.opened ≡ cond (is_open event.now.note) (length before.now) kept.opened }
    ensures asked { result.asked ≡ (kept.asked || asks_for event.now.note) }
{
    Kept {
        fate: fate_after(kept.fate, role, event, before),
        opened: opened_after(kept.opened, &event.note, before),
        asked: kept.asked || asks(&event.note),
    }
}

// How many events come before the OPEN of the latest connection after an event, given how many did
// before it.
#[inline(always)]
fn opened_after(opened: usize, note: &Note, before: &[Seen]) -> usize
    ensures { result ≡ cond (is_open note.now) (length before.now) opened }
{
    if note.is_open() {
        return before.len();
    }
    opened
}

// Whether the event asks for an answer, or may have to be sent again, so that a later REST can find
// that it wasn't.
#[inline(always)]
fn asks(note: &Note) -> bool
    ensures { result ≡ asks_for note.now }
{
    match note {
        Note::Sent(ItemNote::Packet(packet)) | Note::Recv(ItemNote::Packet(packet)) => {
            is_asking(&packet.fields)
        }
        _ => false,
    }
}

// Whether a packet is a PINGREQ, or needs a session and isn't a PUBLISH of QoS 0.
#[inline(always)]
fn is_asking(fields: &PacketFields) -> bool
    ensures { result ≡ asking fields.now }
{
    match fields {
        PacketFields::Pingreq => true,
        PacketFields::Publish(publish) => !matches!(publish.qos, Qos::AtMostOnce),
        _ => fields.is_session_packet(),
    }
}
