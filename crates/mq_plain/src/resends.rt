//! PUBLISH packets that are sent again (MQTT 5.0, sections 4.3 and 4.4).
ghost use Rattle.std.specs.Prelude.{◌≡◌, ◌&&◌, ◌||◌, reverse};
ghost use Rattle.mq_rules.specs.Words.{is_id, is_some_and};
ghost use Rattle.mq_rules.specs.Notes.{delivery_of, sent_publish, is_exactly_once};
ghost use Rattle.mq_rules.specs.Moments.{newest};
ghost use Rattle.mq_rules.specs.Identifiers.{breaks_S02, breaks_S03, breaks_S04};
ghost use Rattle.mq_plain.specs.Lookback.{is_open_after};
ghost use Rattle.mq_plain.specs.Resends.{is_delivering, is_last_exactly_once, is_pubrel_sent};

mod earlier;
mod order;

use crate::connection::since_on_connection;
use crate::identifiers::{Closes, Opens, is_open_id};
use crate::judging::SessionStatement;
use crate::lookback::NoteTest;
use crate::session::{couldnt_know, since_in_session, unless_unknown};
use earlier::may_be_resent;
use mq_packet::Qos;
use mq_rules::{Fate, Memory, Note, Role, Rule, Seen};
pub use order::ResendsInOrder;
use std::alloc::Global;

/// A PUBLISH of QoS 1 or 2 that is sent under an identifier.
#[derive(Drop)]
struct Delivers(u16);

impl NoteTest for Delivers {
    ghost use Rattle.mq_rules.specs.Words.{is_id};
    ghost use Rattle.mq_rules.specs.Notes.{delivery_of};

    ghost test = { λ t n. is_id t.0 (delivery_of n) };

    fn passes(&self, note: &Note) -> bool {
        note.delivery() == Some(self.0)
    }
}

/// A PUBLISH of QoS 2 that opens an identifier.
#[derive(Drop)]
struct OpensExactlyOnce(u16);

impl NoteTest for OpensExactlyOnce {
    ghost use Rattle.std.specs.Prelude.{◌&&◌};
    ghost use Rattle.mq_rules.specs.Words.{is_id, is_some_and};
    ghost use Rattle.mq_rules.specs.Notes.{opener_of, sent_publish, is_exactly_once};

    ghost test = { λ t n. is_id t.0 (opener_of n) && is_some_and (λ p. is_exactly_once p.qos) (sent_publish n) };

    fn passes(&self, note: &Note) -> bool {
        note.opener() == Some(self.0) && is_sent_exactly_once(note)
    }
}

// Whether a PUBLISH of QoS 2 is sent.
fn is_sent_exactly_once(note: &Note) -> bool
    ensures { result ≡ is_some_and (λ p. is_exactly_once p.qos) (sent_publish note.now) }
{
    match note.sent_publish() {
        Some(publish) => matches!(publish.qos, Qos::ExactlyOnce),
        None => false,
    }
}

/// A PUBREL that is sent under an identifier.
#[derive(Drop)]
struct SendsPubrel(u16);

impl NoteTest for SendsPubrel {
    ghost use Rattle.mq_rules.specs.Words.{is_id};
    ghost use Rattle.mq_rules.specs.Notes.{sent_as, pubrel_in};

    ghost test = { λ t n. is_id t.0 (sent_as pubrel_in n) };

    fn passes(&self, note: &Note) -> bool {
        note.sent_pubrel() == Some(self.0)
    }
}

// Whether a packet sends a PUBLISH again that isn't open, and of which nothing was sent that the
// session doesn't show.
#[tactic(auto, unfolding(mq_rules::specs::Identifiers::breaks_S02))]
fn resends_unopened(role: Role, fate: Fate, event: &Seen, before: &[Seen]) -> bool
    ensures { result ≡ breaks_S02 role fate (newest event.now (reverse before.now)) }
{
    match event.note.resend() {
        Some(identifier) => !may_be_resent(role, fate, identifier, before),
        None => false,
    }
}

// Whether a PUBLISH under an identifier was sent on the latest connection, and nothing has closed
// it since.
fn is_sent_already(identifier: u16, before: &[Seen]) -> bool
    ensures { result ≡ is_delivering identifier (reverse before.now) }
{
    since_on_connection(&Delivers(identifier), &Closes(identifier), before)
}

// Whether a packet sends a PUBLISH again that was sent on its connection before, and wasn't closed
// since.
#[tactic(auto, unfolding(mq_rules::specs::Identifiers::breaks_S03))]
fn resends_twice(event: &Seen, before: &[Seen]) -> bool
    ensures { result ≡ breaks_S03 (newest event.now (reverse before.now)) }
{
    match event.note.resend() {
        Some(identifier) => is_sent_already(identifier, before),
        None => false,
    }
}

// Whether the latest opener of an identifier is a PUBLISH of QoS 2.
fn is_opened_exactly_once(role: Role, fate: Fate, identifier: u16, before: &[Seen]) -> bool
    ensures { result ≡ is_last_exactly_once role fate identifier (reverse before.now) }
{
    since_in_session(
        role,
        Some(fate),
        &OpensExactlyOnce(identifier),
        &Opens(identifier),
        before,
    )
}

// Whether a PUBREL under an identifier was sent since its latest opener.
fn is_pubrel_sent_since(role: Role, fate: Fate, identifier: u16, before: &[Seen]) -> bool
    ensures { result ≡ is_pubrel_sent role fate identifier (reverse before.now) }
{
    since_in_session(
        role,
        Some(fate),
        &SendsPubrel(identifier),
        &Opens(identifier),
        before,
    )
}

// Whether an identifier is open by a PUBLISH of QoS 2, and a PUBREL of it was sent since.
fn is_past_pubrel(role: Role, fate: Fate, identifier: u16, before: &[Seen]) -> bool
    ensures { result ≡ (is_open_after role fate identifier (reverse before.now) && (is_last_exactly_once role fate identifier (reverse before.now) && is_pubrel_sent role fate identifier (reverse before.now))) }
{
    is_open_id(role, fate, identifier, before)
        && is_opened_exactly_once(role, fate, identifier, before)
        && is_pubrel_sent_since(role, fate, identifier, before)
}

// Whether a packet sends a PUBLISH again that is open, of QoS 2, and past its PUBREL.
#[tactic(auto, unfolding(mq_rules::specs::Identifiers::breaks_S04))]
fn resends_past_pubrel(role: Role, fate: Fate, event: &Seen, before: &[Seen]) -> bool
    ensures { result ≡ breaks_S04 role fate (newest event.now (reverse before.now)) }
{
    match event.note.resend() {
        Some(identifier) => is_past_pubrel(role, fate, identifier, before),
        None => false,
    }
}

/// S02: a PUBLISH is sent again only if it is open, or may have been sent before though the session
/// doesn't show it: on a void connection, before the session began, or in part.
pub struct ResendsOpen;

impl SessionStatement for ResendsOpen {
    ghost use Rattle.std.specs.Prelude.{refl};
    ghost use Rattle.mq_rules.specs.declared.rule.Rule.TheVariants.{S02};
    ghost use Rattle.mq_rules.specs.Identifiers.{breaks_S02};
    ghost use Rattle.mq_rules.specs.Statements.{knowing};

    ghost judged = { S02 };

    ghost breaks = { λ role. knowing role (breaks_S02 role) };

    fn rule() -> Rule {
        Rule::S02
    }

    fn is_broken(
        _alloc: Global,
        role: Role,
        fate: Fate,
        event: &Seen,
        before: &[Seen],
    ) -> Result<bool, Memory> {
        let unknown = couldnt_know(role, fate, before);
        Ok(unless_unknown(resends_unopened(role, fate, event, before), unknown))
    }

    ghost says = { λ role. refl };
}

/// S03: a PUBLISH is sent again at most once on a connection, and not on the one where it was first
/// sent.
pub struct ResendsOnce;

impl SessionStatement for ResendsOnce {
    ghost use Rattle.std.specs.Prelude.{refl};
    ghost use Rattle.mq_rules.specs.declared.rule.Rule.TheVariants.{S03};
    ghost use Rattle.mq_rules.specs.Identifiers.{breaks_S03};

    ghost judged = { S03 };

    ghost breaks = { λ role f. breaks_S03 };

    fn rule() -> Rule {
        Rule::S03
    }

    fn is_broken(
        _alloc: Global,
        _role: Role,
        _fate: Fate,
        event: &Seen,
        before: &[Seen],
    ) -> Result<bool, Memory> {
        Ok(resends_twice(event, before))
    }

    ghost says = { λ role. refl };
}

/// S04: a PUBLISH of QoS 2 isn't sent again after its PUBREL.
pub struct ResendsBeforePubrel;

impl SessionStatement for ResendsBeforePubrel {
    ghost use Rattle.std.specs.Prelude.{refl};
    ghost use Rattle.mq_rules.specs.declared.rule.Rule.TheVariants.{S04};
    ghost use Rattle.mq_rules.specs.Identifiers.{breaks_S04};

    ghost judged = { S04 };

    ghost breaks = { breaks_S04 };

    fn rule() -> Rule {
        Rule::S04
    }

    fn is_broken(
        _alloc: Global,
        role: Role,
        fate: Fate,
        event: &Seen,
        before: &[Seen],
    ) -> Result<bool, Memory> {
        Ok(resends_past_pubrel(role, fate, event, before))
    }

    ghost says = { λ role. refl };
}
