//! Answers are sent in the order of their causes.
ghost use Rattle.std.specs.Prelude.{◌≡◌, ◌&&◌, nat_lt, length, reverse, IfOk};
ghost use Rattle.mq_rules.specs.Moments.{newest, note, some};
ghost use Rattle.mq_rules.specs.Connections.{connection};
ghost use Rattle.mq_rules.specs.Exchanges.{breaks_O};
ghost use Rattle.mq_plain.specs.Unanswered.{is_first_in, passes_over};

use crate::exchanges::slot::Slot;
use crate::exchanges::unanswered::{is_first, unanswered};
use crate::exchanges::{Exchange, OrderedExchange};
use crate::judging::SessionStatement;
use crate::table::Table;
use mq_rules::{Fate, Memory, Note, Role, Rule, Seen};
use std::alloc::Global;
use std::marker::PhantomData;

/// E1O to E3O: an answer is sent for the first of all unanswered causes on the connection (MQTT
/// 5.0, section 4.6).
pub struct Ordered<X: OrderedExchange>(PhantomData<X>);

impl<X: OrderedExchange> SessionStatement for Ordered<X> {
    ghost use Rattle.mq_rules.specs.Exchanges.{breaks_O};

    ghost judged = { X.ordered };

    ghost breaks = { λ role f. breaks_O X.exchange };

    fn rule() -> Rule {
        X::ordered_rule()
    }

    fn is_broken(
        alloc: Global,
        _role: Role,
        _fate: Fate,
        event: &Seen,
        before: &[Seen],
    ) -> Result<bool, Memory> {
        is_out_of_order::<X>(alloc, event, before)
    }

    ghost says = { X.says_ordered };
}

// Whether an event is an answer, though an unanswered cause under another identifier comes before
// its own cause.
//
// Errors: `Memory` if there is no memory to look back.
#[tactic(auto, unfolding(mq_rules::specs::Exchanges::breaks_O))]
fn is_out_of_order<X: Exchange>(
    alloc: Global,
    event: &Seen,
    before: &[Seen],
) -> Result<bool, Memory>
    ensures { IfOk result (λ broken. broken ≡ breaks_O X.exchange (newest event.now (reverse before.now))) }
{
    match X::answer(&event.note) {
        Some(identifier) => is_passing_over::<X>(alloc, identifier, before),
        None => Ok(false),
    }
}

// Whether the first unanswered cause under this identifier has an unanswered one under another
// identifier before it.
//
// Errors: `Memory` if there is no memory to look back.
fn is_passing_over<X: Exchange>(
    alloc: Global,
    identifier: u16,
    before: &[Seen],
) -> Result<bool, Memory>
    ensures { IfOk result (λ broken. broken ≡ passes_over X.exchange identifier (reverse before.now)) }
{
    let slots = unanswered::<X>(alloc, before)?;
    match slots.get(identifier).first {
        Some(first) => Ok(is_any_before::<X>(&slots, first, before)),
        None => Ok(false),
    }
}

// Whether on the latest connection some event before this index is the first unanswered cause under
// its identifier.
fn is_any_before<X: Exchange>(slots: &Table<Slot>, first: usize, before: &[Seen]) -> bool
    ensures { result ≡ some (λ m. nat_lt (length m.past) first && is_first_in X.exchange slots.now (length m.past) (note m)) (connection (reverse before.now)) }
{
    let mut earlier = before;
    while let Some((event, rest)) = earlier.split_last() {
        if is_first_before::<X>(slots, first, rest.len(), &event.note) {
            return true;
        }
        if event.note.is_open() {
            return false;
        }
        earlier = rest;
    }
    false
}

// Whether the event at the second index, which is below the first, is the first unanswered cause
// under its identifier.
fn is_first_before<X: Exchange>(
    slots: &Table<Slot>,
    first: usize,
    index: usize,
    note: &Note,
) -> bool
    ensures { result ≡ (nat_lt index first && is_first_in X.exchange slots.now index note.now) }
{
    index < first && is_first::<X>(slots, index, note)
}
