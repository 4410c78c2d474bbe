//! Unanswered causes on the latest connection.
ghost use Rattle.std.specs.Prelude.{ℕ, ◌≡◌, ◌&&◌, cond, nat_lt, length, reverse, IfOk};
ghost use Rattle.mq_rules.specs.Words.{is_id};
ghost use Rattle.mq_rules.specs.Moments.{note, some};
ghost use Rattle.mq_rules.specs.Connections.{connection};
ghost use Rattle.mq_plain.specs.Tables.{at};
ghost use Rattle.mq_plain.specs.Unanswered.{first_index, asking_at, answered, is_first_in};

use crate::exchanges::Exchange;
use crate::exchanges::slot::Slot;
use crate::table::Table;
use mq_rules::{Memory, Note, Seen};
use std::alloc::Global;

/// For each Packet Identifier, the index of the first unanswered cause under it on the latest
/// connection of these events.
///
/// # Errors
///
/// `Memory` if there is no memory for them.
pub fn unanswered<X: Exchange>(alloc: Global, before: &[Seen]) -> Result<Table<Slot>, Memory>
    ensures { IfOk result (λ slots. (i : ℕ) → (at slots i).first ≡ first_index X.exchange i (reverse before.now)) }
{
    let initial = Slot {
        is_answered: false,
        first: None,
    };
    let mut slots = Table::new(alloc, initial)?;
    let mut earlier = before;
    while let Some((event, rest)) = earlier.split_last() {
        take_cause::<X>(&mut slots, rest.len(), &event.note);
        take_answer::<X>(&mut slots, &event.note);
        if event.note.is_open() {
            return Ok(slots);
        }
        earlier = rest;
    }
    Ok(slots)
}

// Takes in an event as a cause. It is at this index, before all that was taken in.
fn take_cause<X: Exchange>(slots: &mut Table<Slot>, index: usize, note: &Note)
    ensures { (i : ℕ) → at slots.new i ≡ asking_at (is_id i (X.exchange.cause note.now)) index (at slots.old i) }
{
    if let Some(identifier) = X::cause(note) {
        let slot = slots.get(identifier);
        slots.set(identifier, slot.with_cause(index));
    }
}

// Takes in an event as an answer. It comes before all that was taken in.
fn take_answer<X: Exchange>(slots: &mut Table<Slot>, note: &Note)
    ensures { (i : ℕ) → at slots.new i ≡ answered (is_id i (X.exchange.answer note.now)) (at slots.old i) }
{
    if let Some(identifier) = X::answer(note) {
        let slot = slots.get(identifier);
        slots.set(identifier, slot.with_answer());
    }
}

/// Whether the event at this index is the first unanswered cause under its identifier.
pub fn is_first<X: Exchange>(slots: &Table<Slot>, index: usize, note: &Note) -> bool
    ensures { result ≡ is_first_in X.exchange slots.now index note.now }
{
    match X::cause(note) {
        Some(identifier) => slots.get(identifier).first == Some(index),
        None => false,
    }
}
