//! How many Reason Codes a SUBACK or UNSUBACK has (MQTT 5.0, sections 3.9.3 and 3.11.3).
ghost use Rattle.std.specs.Prelude.{◌≡◌, ◌==◌, not, length, reverse};
ghost use Rattle.mq_rules.specs.Words.{is_some_and};
ghost use Rattle.mq_rules.specs.Notes.{received_subscription, received_unsubscription};
ghost use Rattle.mq_rules.specs.Moments.{newest, note};
ghost use Rattle.mq_rules.specs.Subscriptions.{breaks_B03, breaks_B04};
ghost use Rattle.mq_plain.specs.Lookback.{first_subscribe_after, first_unsubscribe_after};

use crate::earliest::earliest_on_connection;
use crate::judging::SessionStatement;
use crate::lookback::NoteTest;
use mq_rules::{Fate, Memory, Note, PacketFields, Role, Rule, Seen};
use std::alloc::Global;

/// A SUBSCRIBE that is received under an identifier.
#[derive(Drop)]
pub struct AsksToSubscribe(pub u16);

impl NoteTest for AsksToSubscribe {
    ghost use Rattle.mq_rules.specs.Words.{is_id};
    ghost use Rattle.mq_rules.specs.Notes.{received_as, subscribe_in};

    ghost test = { λ t n. is_id t.0 (received_as subscribe_in n) };

    fn passes(&self, note: &Note) -> bool {
        note.received_subscribe() == Some(self.0)
    }
}

/// A SUBACK that is sent under an identifier.
#[derive(Drop)]
pub struct GivesSuback(pub u16);

impl NoteTest for GivesSuback {
    ghost use Rattle.mq_rules.specs.Words.{is_id};
    ghost use Rattle.mq_rules.specs.Notes.{sent_as, suback_in};

    ghost test = { λ t n. is_id t.0 (sent_as suback_in n) };

    fn passes(&self, note: &Note) -> bool {
        note.sent_suback() == Some(self.0)
    }
}

/// An UNSUBSCRIBE that is received under an identifier.
#[derive(Drop)]
pub struct AsksToUnsubscribe(pub u16);

impl NoteTest for AsksToUnsubscribe {
    ghost use Rattle.mq_rules.specs.Words.{is_id};
    ghost use Rattle.mq_rules.specs.Notes.{received_as, unsubscribe_in};

    ghost test = { λ t n. is_id t.0 (received_as unsubscribe_in n) };

    fn passes(&self, note: &Note) -> bool {
        note.received_unsubscribe() == Some(self.0)
    }
}

/// An UNSUBACK that is sent under an identifier.
#[derive(Drop)]
pub struct GivesUnsuback(pub u16);

impl NoteTest for GivesUnsuback {
    ghost use Rattle.mq_rules.specs.Words.{is_id};
    ghost use Rattle.mq_rules.specs.Notes.{sent_as, unsuback_in};

    ghost test = { λ t n. is_id t.0 (sent_as unsuback_in n) };

    fn passes(&self, note: &Note) -> bool {
        note.sent_unsuback() == Some(self.0)
    }
}

// Whether an event is a SUBACK whose number of Reason Codes isn't the number of filters of its
// first unanswered SUBSCRIBE.
#[tactic(auto, unfolding(mq_rules::specs::Subscriptions::breaks_B03))]
fn miscounts_subscribe(event: &Seen, before: &[Seen]) -> bool
    ensures { result ≡ breaks_B03 (newest event.now (reverse before.now)) }
{
    match event.note.sent_fields() {
        Some(PacketFields::Suback { identifier, codes }) => {
            is_subscribe_other(*identifier, codes.len(), before)
        }
        _ => false,
    }
}

// Whether the first unanswered SUBSCRIBE under an identifier has a number of filters other than
// this.
fn is_subscribe_other(identifier: u16, codes: usize, before: &[Seen]) -> bool
    ensures { result ≡ is_some_and (λ j. is_some_and (λ s. not (length s.filters == codes)) (received_subscription (note j))) (first_subscribe_after identifier (reverse before.now)) }
{
    match earliest_on_connection(
        &AsksToSubscribe(identifier),
        &GivesSuback(identifier),
        before,
    ) {
        Some(first) => has_other_filters(&first.event.note, codes),
        None => false,
    }
}

// Whether it is a SUBSCRIBE that was received, and has a number of filters other than this.
fn has_other_filters(note: &Note, codes: usize) -> bool
    ensures { result ≡ is_some_and (λ s. not (length s.filters == codes)) (received_subscription note.now) }
{
    match note.received_fields() {
        Some(PacketFields::Subscribe { filters, .. }) => filters.len() != codes,
        _ => false,
    }
}

// Whether an event is an UNSUBACK whose number of Reason Codes isn't the number of filters of its
// first unanswered UNSUBSCRIBE.
#[tactic(auto, unfolding(mq_rules::specs::Subscriptions::breaks_B04))]
fn miscounts_unsubscribe(event: &Seen, before: &[Seen]) -> bool
    ensures { result ≡ breaks_B04 (newest event.now (reverse before.now)) }
{
    match event.note.sent_fields() {
        Some(PacketFields::Unsuback { identifier, codes }) => {
            is_unsubscribe_other(*identifier, codes.len(), before)
        }
        _ => false,
    }
}

// Whether the first unanswered UNSUBSCRIBE under an identifier has a number of filters other than
// this.
fn is_unsubscribe_other(identifier: u16, codes: usize, before: &[Seen]) -> bool
    ensures { result ≡ is_some_and (λ j. is_some_and (λ u. not (length u.filters == codes)) (received_unsubscription (note j))) (first_unsubscribe_after identifier (reverse before.now)) }
{
    match earliest_on_connection(
        &AsksToUnsubscribe(identifier),
        &GivesUnsuback(identifier),
        before,
    ) {
        Some(first) => deletes_other(&first.event.note, codes),
        None => false,
    }
}

// Whether it is an UNSUBSCRIBE that was received, and has a number of filters other than this.
fn deletes_other(note: &Note, codes: usize) -> bool
    ensures { result ≡ is_some_and (λ u. not (length u.filters == codes)) (received_unsubscription note.now) }
{
    match note.received_fields() {
        Some(PacketFields::Unsubscribe { filters, .. }) => filters.len() != codes,
        _ => false,
    }
}

/// B03: a SUBACK has a Reason Code for each filter of the SUBSCRIBE that it answers.
pub struct CountedSubacks;

impl SessionStatement for CountedSubacks {
    ghost use Rattle.std.specs.Prelude.{refl};
    ghost use Rattle.mq_rules.specs.declared.rule.Rule.TheVariants.{B03};
    ghost use Rattle.mq_rules.specs.Subscriptions.{breaks_B03};

    ghost judged = { B03 };

    ghost breaks = { λ role f. breaks_B03 };

    fn rule() -> Rule {
        Rule::B03
    }

    fn is_broken(
        _alloc: Global,
        _role: Role,
        _fate: Fate,
        event: &Seen,
        before: &[Seen],
    ) -> Result<bool, Memory> {
        Ok(miscounts_subscribe(event, before))
    }

    ghost says = { λ role. refl };
}

/// B04: an UNSUBACK has a Reason Code for each filter of the UNSUBSCRIBE that it answers.
pub struct CountedUnsubacks;

impl SessionStatement for CountedUnsubacks {
    ghost use Rattle.std.specs.Prelude.{refl};
    ghost use Rattle.mq_rules.specs.declared.rule.Rule.TheVariants.{B04};
    ghost use Rattle.mq_rules.specs.Subscriptions.{breaks_B04};

    ghost judged = { B04 };

    ghost breaks = { λ role f. breaks_B04 };

    fn rule() -> Rule {
        Rule::B04
    }

    fn is_broken(
        _alloc: Global,
        _role: Role,
        _fate: Fate,
        event: &Seen,
        before: &[Seen],
    ) -> Result<bool, Memory> {
        Ok(miscounts_unsubscribe(event, before))
    }

    ghost says = { λ role. refl };
}
