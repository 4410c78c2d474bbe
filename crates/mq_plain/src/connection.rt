//! Looking back over the latest connection of some events.
ghost use Rattle.std.specs.Prelude.{◌≡◌, None, cond, reverse};
ghost use Rattle.std.specs.Option.{option_or};
ghost use Rattle.mq_rules.specs.Notes.{is_open};
ghost use Rattle.mq_rules.specs.Moments.{newest, note, some, since};
ghost use Rattle.mq_rules.specs.Connections.{begins_session, connection, gives_fate, latest_fate};
ghost use Rattle.mq_rules.specs.Histories.{begins_now, gives_now, history};

use crate::lookback::{Never, NoteTest};
use mq_rules::{Fate, History, Note, Role, Seen};

/// Whether on the latest connection some event passes the first test, and no later one the second.
pub fn since_on_connection<S: NoteTest, E: NoteTest>(starts: &S, ends: &E, before: &[Seen]) -> bool
    ensures { result ≡ since (λ m. S.test starts.now (note m)) (λ m. E.test ends.now (note m)) (connection (reverse before.now)) }
{
    let mut earlier = before;
    while let Some((event, rest)) = earlier.split_last() {
        if starts.passes(&event.note) {
            return true;
        }
        if ends.passes(&event.note) {
            return false;
        }
        if event.note.is_open() {
            return false;
        }
        earlier = rest;
    }
    false
}

/// Whether on the latest connection some event passes the test.
#[tactic(auto, using(crate::proofs::LookbackLaws::some_since))]
pub fn some_on_connection<S: NoteTest>(test: &S, before: &[Seen]) -> bool
    ensures { result ≡ some (λ m. S.test test.now (note m)) (connection (reverse before.now)) }
{
    since_on_connection(test, &Never, before)
}

/// The fate of the latest connection, if these events decide it.
pub fn latest_fate_of(role: Role, before: &[Seen]) -> Option<Fate>
    ensures { result ≡ latest_fate role (reverse before.now) }
{
    let mut fate = Some(Fate::Void);
    let mut history = History::new();
    for event in before {
        fate = fate_next(fate, &history, role, &event.note);
        history.consume(role, &event.note);
    }
    fate
}

// The fate of the latest connection after an event, given the fate and what is kept before it.
fn fate_next(fate: Option<Fate>, history: &History, role: Role, note: &Note) -> Option<Fate>
    ensures { result ≡ cond (is_open note.now) None (option_or fate (gives_now role history.now note.now)) }
{
    if note.is_open() {
        return None;
    }
    match fate {
        Some(fate) => Some(fate),
        None => history.gives(role, note),
    }
}

/// The fate of the latest connection after an event, given the fate before it.
pub fn fate_after(fate: Option<Fate>, role: Role, event: &Seen, before: &[Seen]) -> Option<Fate>
    ensures { result ≡ cond (is_open event.now.note) None (option_or fate (gives_fate role (newest event.now (reverse before.now)))) }
{
    if event.note.is_open() {
        return None;
    }
    match fate {
        Some(fate) => Some(fate),
        None => given_by(role, event, before),
    }
}

// The fate that an event gives to its connection.
fn given_by(role: Role, event: &Seen, before: &[Seen]) -> Option<Fate>
    ensures { result ≡ gives_fate role (newest event.now (reverse before.now)) }
{
    history_of(role, before).gives(role, &event.note)
}

/// Whether a session begins by an event.
pub fn begins_by(role: Role, event: &Seen, before: &[Seen]) -> bool
    ensures { result ≡ begins_session role (newest event.now (reverse before.now)) }
{
    history_of(role, before).begins(role, &event.note)
}

// What is kept of these events.
fn history_of(role: Role, before: &[Seen]) -> History
    ensures { result ≡ history role (reverse before.now) }
{
    let mut history = History::new();
    for event in before {
        history.consume(role, &event.note);
    }
    history
}
