//! What may have been sent of a PUBLISH that is sent again, though its identifier isn't open: on a
//! void connection, before the session began, or in part (MQTT 5.0, sections 3.3.1.1 and 4.4).
ghost use Rattle.std.specs.Prelude.{◌≡◌, ◌&&◌, ◌||◌, false, reverse, Some};
ghost use Rattle.mq_rules.specs.declared.role.Role.TheVariants.{Client};
ghost use Rattle.mq_rules.specs.declared.note.Seen.{Seen as TheSeen};
ghost use Rattle.mq_rules.specs.Notes.{is_open, is_cutting};
ghost use Rattle.mq_rules.specs.Moments.{newest, note, some};
ghost use Rattle.mq_rules.specs.Connections.{has_session, session, voided};
ghost use Rattle.mq_rules.specs.Identifiers.{was_cut_off, was_sent_before_session, was_sent_on_void};
ghost use Rattle.mq_plain.specs.Lookback.{is_open_after};
ghost use Rattle.mq_plain.specs.Resends.{happened_on_void, is_sent_before, began_with};

use super::Delivers;
use crate::connection::{begins_by, latest_fate_of, some_on_connection};
use crate::identifiers::is_open_id;
use crate::lookback::NoteTest;
use crate::session::{begins_at, fate_before, is_in_session, is_voided, some_in_session};
use mq_rules::{Fate, Note, Role, Seen};

/// The CLOSEs that cut off a PUBLISH of QoS 1 or 2.
#[derive(Drop)]
struct CutsPublish;

impl NoteTest for CutsPublish {
    ghost use Rattle.mq_rules.specs.Notes.{is_cutting};

    ghost test = { λ t n. is_cutting n };

    fn passes(&self, note: &Note) -> bool {
        match note {
            Note::Close { cuts_publish, .. } => *cuts_publish,
            _ => false,
        }
    }
}

// Whether some event on a void connection passes the test, anywhere in these events.
fn happened_on_void<T: NoteTest>(role: Role, test: &T, before: &[Seen]) -> bool
    ensures { result ≡ happened_on_void role (T.test test.now) (reverse before.now) }
{
    let mut earlier = before;
    let mut fate = latest_fate_of(role, before);
    while let Some((event, rest)) = earlier.split_last() {
        if happens_on_void(test, fate, &event.note) {
            return true;
        }
        fate = fate_before(role, fate, &event.note, rest);
        earlier = rest;
    }
    false
}

// Whether an event passes the test, whose connection has this fate, and is void.
fn happens_on_void<T: NoteTest>(test: &T, fate: Option<Fate>, note: &Note) -> bool
    ensures { result ≡ (T.test test.now note.now && voided fate) }
{
    test.passes(note) && is_voided(fate)
}

// Whether a PUBLISH was cut off on a void connection, or in the session.
fn is_cut_off(role: Role, fate: Fate, before: &[Seen]) -> bool
    ensures { result ≡ (happened_on_void role is_cutting (reverse before.now) || some (λ m. is_cutting (note m)) (session role (Some fate) (reverse before.now))) }
{
    happened_on_void(role, &CutsPublish, before)
        || some_in_session(role, Some(fate), &CutsPublish, before)
}

// Whether a session begins by an event, and a PUBLISH under the identifier was sent before it on
// its connection.
fn begins_after_delivery(identifier: u16, event: &Seen, before: &[Seen]) -> bool
    ensures { result ≡ began_with identifier (newest event.now (reverse before.now)) }
{
    begins_by(Role::Client, event, before) && some_on_connection(&Delivers(identifier), before)
}

// Whether an event that is in the session does so.
fn begins_in_session(fate: Option<Fate>, identifier: u16, event: &Seen, before: &[Seen]) -> bool
    ensures { result ≡ (has_session Client fate event.now (reverse before.now) && began_with identifier (newest event.now (reverse before.now))) }
{
    is_in_session(Role::Client, fate, event, before)
        && begins_after_delivery(identifier, event, before)
}

// Whether a client sent a PUBLISH under the identifier before the CONNACK with which the session
// began, on an earlier connection than the latest one, which has this fate.
fn is_sent_before_session(fate: Fate, identifier: u16, before: &[Seen]) -> bool
    ensures { result ≡ is_sent_before fate identifier (reverse before.now) }
{
    let mut earlier = before;
    let mut fate = Some(fate);
    let mut is_earlier = false;
    while let Some((event, rest)) = earlier.split_last() {
        if is_earlier && begins_in_session(fate, identifier, event, rest) {
            return true;
        }
        if begins_at(fate, &event.note) {
            return false;
        }
        fate = fate_before(Role::Client, fate, &event.note, rest);
        is_earlier = is_earlier || event.note.is_open();
        earlier = rest;
    }
    false
}

// The same of a tested end, which may be a server: that sends its CONNACK first.
fn was_sent_early(role: Role, fate: Fate, identifier: u16, before: &[Seen]) -> bool
    ensures { (e : TheSeen) → is_open e.note ≡ false → result ≡ was_sent_before_session role fate identifier (newest e (reverse before.now)) }
{
    match role {
        Role::Client => is_sent_before_session(fate, identifier, before),
        Role::Server => false,
    }
}

/// Whether the PUBLISH of an identifier may be sent again by an event after these: it is open, or
/// may have been sent though the session doesn't show it.
pub fn may_be_resent(role: Role, fate: Fate, identifier: u16, before: &[Seen]) -> bool
    ensures { (e : TheSeen) → is_open e.note ≡ false → result ≡ (is_open_after role fate identifier (reverse before.now)
        || (was_sent_on_void role identifier (newest e (reverse before.now)) || (was_sent_before_session role fate identifier (newest e (reverse before.now)) || was_cut_off role fate (newest e (reverse before.now))))) }
{
    is_open_id(role, fate, identifier, before)
        || happened_on_void(role, &Delivers(identifier), before)
        || was_sent_early(role, fate, identifier, before)
        || is_cut_off(role, fate, before)
}
