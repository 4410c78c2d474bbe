//! Messages that a resumed connection passed over (MQTT 5.0, sections 3.1.2.11.4, 3.2.2.3.4 and
//! 3.2.2.3.6).
ghost use Rattle.std.specs.Prelude.{ℕ, ◌≡◌, ◌&&◌, not, length, reverse, Some};
ghost use Rattle.mq_rules.specs.Moments.{Moment, some};
ghost use Rattle.mq_rules.specs.Connections.{connection, resumed};
ghost use Rattle.mq_rules.specs.Identifiers.{announces_bound, sends_again, is_passed_over as passed_over};
ghost use Rattle.mq_plain.specs.Lookback.{may_be_discarded_after};

use crate::connection::{latest_fate_of, some_on_connection};
use crate::earliest::latest_in_session;
use crate::handshake::handshake_of;
use crate::identifiers::Opens;
use crate::lookback::NoteTest;
use crate::session::{before_latest, since_in_session};
use mq_rules::{Fate, Note, Role, Seen};

/// A PUBLISH of QoS above 0, or a PUBREL, that is sent under an identifier.
#[derive(Drop)]
struct SendsAgain(u16);

impl NoteTest for SendsAgain {
    ghost use Rattle.std.specs.Prelude.{◌||◌};
    ghost use Rattle.mq_rules.specs.Words.{is_id};
    ghost use Rattle.mq_rules.specs.Notes.{delivery_of, sent_as, pubrel_in};

    ghost test = { λ t n. is_id t.0 (delivery_of n) || is_id t.0 (sent_as pubrel_in n) };

    fn passes(&self, note: &Note) -> bool {
        note.delivery() == Some(self.0) || note.sent_pubrel() == Some(self.0)
    }
}

/// A PUBREC below 0x80 that is received under an identifier.
#[derive(Drop)]
struct Confirms(u16);

impl NoteTest for Confirms {
    ghost use Rattle.mq_rules.specs.Words.{is_id};
    ghost use Rattle.mq_rules.specs.Notes.{received_as, accepting_pubrec_in};

    ghost test = { λ t n. is_id t.0 (received_as accepting_pubrec_in n) };

    fn passes(&self, note: &Note) -> bool {
        note.received_accepting_pubrec() == Some(self.0)
    }
}

// Whether a connection with this fate resumed a session.
fn is_resumed(fate: Option<Fate>) -> bool
    ensures { result ≡ resumed fate }
{
    match fate {
        Some(fate) => fate.resumes(),
        None => false,
    }
}

// Whether the peer announced a Maximum Packet Size or a Maximum QoS on the latest connection.
fn is_bounded(role: Role, before: &[Seen]) -> bool
    ensures { result ≡ announces_bound role (connection (reverse before.now)) }
{
    handshake_of(role, before).bounds_sending(role)
}

// Whether the latest connection, which has this fate, passes over what is open under an identifier.
fn passes_over(role: Role, fate: Option<Fate>, identifier: u16, before: &[Seen]) -> bool
    ensures { result ≡ (resumed fate && (announces_bound role (connection (reverse before.now)) && not (some (sends_again identifier) (connection (reverse before.now))))) }
{
    is_resumed(fate)
        && (is_bounded(role, before) && !some_on_connection(&SendsAgain(identifier), before))
}

/// Whether an opener of an identifier was passed over, if the latest connection of these events has
/// this fate; so many events come before the opener.
pub fn is_passed_over(
    role: Role,
    fate: Fate,
    identifier: u16,
    opener: usize,
    before: &[Seen],
) -> bool
    ensures { (k : Moment) → length k.past ≡ opener → result ≡ passed_over role (Some fate) identifier (reverse before.now) k }
{
    let mut until = before;
    let mut fate = Some(fate);
    while let Some(rest) = before_latest(until) {
        if rest.len() <= opener {
            return false;
        }
        if passes_over(role, fate, identifier, until) {
            return true;
        }
        fate = latest_fate_of(role, rest);
        until = rest;
    }
    false
}

/// Whether what is open under an identifier may have been discarded, if the latest connection has
/// this fate: its latest opener was passed over, and no PUBREC below 0x80 came since.
pub fn may_be_discarded(role: Role, fate: Fate, identifier: u16, before: &[Seen]) -> bool
    ensures { result ≡ may_be_discarded_after role fate identifier (reverse before.now) }
{
    let confirms = Confirms(identifier);
    let opens = Opens(identifier);
    if since_in_session(role, Some(fate), &confirms, &opens, before) {
        return false;
    }
    match latest_in_session(role, Some(fate), &opens, before) {
        Some(opener) => is_passed_over(role, fate, identifier, opener.before.len(), before),
        None => false,
    }
}
