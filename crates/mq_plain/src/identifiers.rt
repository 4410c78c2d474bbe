//! Packet Identifiers in use (MQTT 5.0, section 2.2.1).
ghost use Rattle.std.specs.Prelude.{◌≡◌, ◌&&◌, not, reverse};
ghost use Rattle.mq_rules.specs.Moments.{newest};
ghost use Rattle.mq_rules.specs.Identifiers.{breaks_S01};
ghost use Rattle.mq_plain.specs.Lookback.{is_open_after, may_be_discarded_after, awaits_suback_after, awaits_unsuback_after, is_busy_after};

use crate::connection::since_on_connection;
use crate::judging::SessionStatement;
use crate::lookback::NoteTest;
use crate::passing::may_be_discarded;
use crate::session::{accepts, couldnt_know_resumed, since_in_session, unless_unknown};
use mq_rules::{Fate, Memory, Note, Role, Rule, Seen};
use std::alloc::Global;

/// The events that open an identifier.
#[derive(Drop)]
pub struct Opens(pub u16);

impl NoteTest for Opens {
    ghost use Rattle.mq_rules.specs.Words.{is_id};
    ghost use Rattle.mq_rules.specs.Notes.{opener_of};

    ghost test = { λ t n. is_id t.0 (opener_of n) };

    fn passes(&self, note: &Note) -> bool {
        note.opener() == Some(self.0)
    }
}

/// The events that close an identifier.
#[derive(Drop)]
pub struct Closes(pub u16);

impl NoteTest for Closes {
    ghost use Rattle.mq_rules.specs.Words.{is_id};
    ghost use Rattle.mq_rules.specs.Notes.{closer_of};

    ghost test = { λ t n. is_id t.0 (closer_of n) };

    fn passes(&self, note: &Note) -> bool {
        note.closer() == Some(self.0)
    }
}

/// A SUBSCRIBE that is sent under an identifier.
#[derive(Drop)]
struct Subscribes(u16);

impl NoteTest for Subscribes {
    ghost use Rattle.mq_rules.specs.Words.{is_id};
    ghost use Rattle.mq_rules.specs.Notes.{sent_as, subscribe_in};

    ghost test = { λ t n. is_id t.0 (sent_as subscribe_in n) };

    fn passes(&self, note: &Note) -> bool {
        note.sent_subscribe() == Some(self.0)
    }
}

/// A SUBACK that is received under an identifier.
#[derive(Drop)]
struct AnswersSubscribe(u16);

impl NoteTest for AnswersSubscribe {
    ghost use Rattle.mq_rules.specs.Words.{is_id};
    ghost use Rattle.mq_rules.specs.Notes.{received_as, suback_in};

    ghost test = { λ t n. is_id t.0 (received_as suback_in n) };

    fn passes(&self, note: &Note) -> bool {
        note.received_suback() == Some(self.0)
    }
}

/// An UNSUBSCRIBE that is sent under an identifier.
#[derive(Drop)]
struct Unsubscribes(u16);

impl NoteTest for Unsubscribes {
    ghost use Rattle.mq_rules.specs.Words.{is_id};
    ghost use Rattle.mq_rules.specs.Notes.{sent_as, unsubscribe_in};

    ghost test = { λ t n. is_id t.0 (sent_as unsubscribe_in n) };

    fn passes(&self, note: &Note) -> bool {
        note.sent_unsubscribe() == Some(self.0)
    }
}

/// An UNSUBACK that is received under an identifier.
#[derive(Drop)]
struct AnswersUnsubscribe(u16);

impl NoteTest for AnswersUnsubscribe {
    ghost use Rattle.mq_rules.specs.Words.{is_id};
    ghost use Rattle.mq_rules.specs.Notes.{received_as, unsuback_in};

    ghost test = { λ t n. is_id t.0 (received_as unsuback_in n) };

    fn passes(&self, note: &Note) -> bool {
        note.received_unsuback() == Some(self.0)
    }
}

/// Whether an identifier is open after these events, if the latest connection has this fate.
pub fn is_open_id(role: Role, fate: Fate, identifier: u16, before: &[Seen]) -> bool
    ensures { result ≡ is_open_after role fate identifier (reverse before.now) }
{
    since_in_session(
        role,
        Some(fate),
        &Opens(identifier),
        &Closes(identifier),
        before,
    )
}

// Whether a SUBSCRIBE that was sent under an identifier on the latest connection waits for its
// SUBACK.
fn is_subscribing(identifier: u16, before: &[Seen]) -> bool
    ensures { result ≡ awaits_suback_after identifier (reverse before.now) }
{
    since_on_connection(
        &Subscribes(identifier),
        &AnswersSubscribe(identifier),
        before,
    )
}

// Whether an UNSUBSCRIBE that was sent under an identifier on the latest connection waits for its
// UNSUBACK.
fn is_unsubscribing(identifier: u16, before: &[Seen]) -> bool
    ensures { result ≡ awaits_unsuback_after identifier (reverse before.now) }
{
    since_on_connection(
        &Unsubscribes(identifier),
        &AnswersUnsubscribe(identifier),
        before,
    )
}

// Whether an identifier is open, and what is open can't have been discarded.
fn is_held(role: Role, fate: Fate, identifier: u16, before: &[Seen]) -> bool
    ensures { result ≡ (is_open_after role fate identifier (reverse before.now) && not (may_be_discarded_after role fate identifier (reverse before.now))) }
{
    is_open_id(role, fate, identifier, before) && !may_be_discarded(role, fate, identifier, before)
}

// Whether an identifier is busy after these events, if the latest connection has this fate: it is
// open and can't have been discarded, or a SUBSCRIBE or UNSUBSCRIBE under it waits for its answer.
fn is_busy_id(role: Role, fate: Fate, identifier: u16, before: &[Seen]) -> bool
    ensures { result ≡ is_busy_after role fate identifier (reverse before.now) }
{
    if is_held(role, fate, identifier, before) {
        return true;
    }
    if is_subscribing(identifier, before) {
        return true;
    }
    is_unsubscribing(identifier, before)
}

// Whether a packet takes an identifier that is busy, if the latest connection has this fate.
#[tactic(auto, unfolding(mq_rules::specs::Identifiers::breaks_S01))]
fn takes_busy(role: Role, fate: Fate, event: &Seen, before: &[Seen]) -> bool
    ensures { result ≡ breaks_S01 role fate (newest event.now (reverse before.now)) }
{
    match event.note.taken_identifier(role) {
        Some(identifier) => is_busy_id(role, fate, identifier, before),
        None => false,
    }
}

/// S01: a new PUBLISH, SUBSCRIBE or UNSUBSCRIBE takes no Packet Identifier that is in use.
pub struct TakenIdentifiers;

impl SessionStatement for TakenIdentifiers {
    ghost use Rattle.std.specs.Prelude.{refl};
    ghost use Rattle.mq_rules.specs.declared.rule.Rule.TheVariants.{S01};
    ghost use Rattle.mq_rules.specs.Identifiers.{breaks_S01};
    ghost use Rattle.mq_rules.specs.Statements.{knowing_resumed};

    ghost judged = { S01 };

    ghost breaks = { λ role. knowing_resumed role (breaks_S01 role) };

    fn rule() -> Rule {
        Rule::S01
    }

    fn is_broken(
        _alloc: Global,
        role: Role,
        fate: Fate,
        event: &Seen,
        before: &[Seen],
    ) -> Result<bool, Memory> {
        let unknown = couldnt_know_resumed(role, fate, before);
        Ok(unless_unknown(takes_busy(role, fate, event, before), unknown))
    }

    ghost says = { λ role. refl };
}
