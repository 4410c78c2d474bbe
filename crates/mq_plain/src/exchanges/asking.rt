//! Each answer was asked for.
ghost use Rattle.std.specs.Prelude.{◌≡◌, ◌==◌, ◌&&◌, not, reverse};
ghost use Rattle.mq_rules.specs.Words.{is_id};
ghost use Rattle.mq_rules.specs.Notes.{is_open};
ghost use Rattle.mq_rules.specs.Moments.{newest, since};
ghost use Rattle.mq_rules.specs.Connections.{begun, number, session};
ghost use Rattle.mq_rules.specs.Exchanges.{causes, answers, breaks_A};
ghost use Rattle.mq_plain.specs.Lookback.{answer_by};

use crate::exchanges::Exchange;
use crate::judging::SessionStatement;
use crate::session::{begins_at, couldnt_know, fate_before, is_accepted, unless_unknown};
use mq_rules::{Fate, Memory, Note, Role, Rule, Seen};
use std::alloc::Global;
use std::marker::PhantomData;

/// E1A to E6A: an answer comes after its cause in the session, with no other answer of its
/// connection between them.
pub struct Asked<X: Exchange>(PhantomData<X>);

impl<X: Exchange> SessionStatement for Asked<X> {
    ghost use Rattle.mq_rules.specs.Exchanges.{breaks_A};
    ghost use Rattle.mq_rules.specs.Statements.{if_early};

    ghost judged = { X.asked };

    ghost breaks = { λ role. if_early X.early role (breaks_A X.exchange role) };

    fn rule() -> Rule {
        X::asked_rule()
    }

    fn is_broken(
        _alloc: Global,
        role: Role,
        fate: Fate,
        event: &Seen,
        before: &[Seen],
    ) -> Result<bool, Memory> {
        let unasked = lacks_cause::<X>(role, fate, event, before);
        if !X::may_be_early() {
            return Ok(unasked);
        }
        Ok(unless_unknown(unasked, couldnt_know(role, fate, before)))
    }

    ghost says = { X.says_asked };
}

// Whether an event is an answer that nothing asked for, if the latest connection has this fate.
#[tactic(auto, unfolding(mq_rules::specs::Exchanges::breaks_A))]
fn lacks_cause<X: Exchange>(role: Role, fate: Fate, event: &Seen, before: &[Seen]) -> bool
    ensures { result ≡ breaks_A X.exchange role fate (newest event.now (reverse before.now)) }
{
    match X::answer(&event.note) {
        Some(identifier) => !is_asked::<X>(role, fate, identifier, before),
        None => false,
    }
}

// Whether in the current session after these events, if the latest connection has this fate, some
// event is a cause under an identifier, and no later one on the latest connection is an answer.
fn is_asked<X: Exchange>(role: Role, fate: Fate, identifier: u16, before: &[Seen]) -> bool
    ensures { result ≡ since (causes X.exchange identifier) (λ m. answers X.exchange identifier m && (number m == begun (reverse before.now))) (session role (Some fate) (reverse before.now)) }
{
    let mut earlier = before;
    let mut fate = Some(fate);
    let mut is_latest = true;
    while let Some((event, rest)) = earlier.split_last() {
        let is_in = is_accepted(fate);
        if let Some(answer) = answer_of_event::<X>(is_in, is_latest, identifier, &event.note) {
            return answer;
        }
        if begins_at(fate, &event.note) {
            return false;
        }
        is_latest = stays_latest(is_latest, &event.note);
        fate = fate_before(role, fate, &event.note, rest);
        earlier = rest;
    }
    false
}

// What an event decides by itself, if its connection is accepted: it is a cause under the
// identifier, or an answer on the latest connection.
fn answer_of_event<X: Exchange>(
    is_in: bool,
    is_latest: bool,
    identifier: u16,
    note: &Note,
) -> Option<bool>
    ensures { result ≡ answer_by (is_in && is_id identifier (X.exchange.cause note.now)) (is_in && (is_id identifier (X.exchange.answer note.now) && is_latest)) }
{
    if !is_in {
        return None;
    }
    if X::cause(note) == Some(identifier) {
        return Some(true);
    }
    if is_latest && X::answer(note) == Some(identifier) {
        return Some(false);
    }
    None
}

// Whether what comes before an event is on the latest connection; the flag says the same of the
// event.
fn stays_latest(is_latest: bool, note: &Note) -> bool
    ensures { result ≡ (is_latest && not (is_open note.now)) }
{
    is_latest && !note.is_open()
}
