//! Looking back for the earliest event that nothing has ended since, and for the latest one.
ghost use Rattle.std.specs.Prelude.{◌≡◌, ◌+◌, ◌==◌, ◌&&◌, ◌||◌, cond, Some, None, length, reverse};
ghost use Rattle.mq_rules.specs.Moments.{newest, note, is_same, since, earliest_since, latest};
ghost use Rattle.mq_rules.specs.Connections.{connection, session};
ghost use Rattle.mq_plain.specs.Finding.{moment_in, moment_of};
ghost use Rattle.mq_plain.specs.Lookback.{answer_by};

use crate::lookback::NoteTest;
use crate::session::{
    any_before, begins_at, fate_before, is_any_accepted, is_in_known_session, passes_in_session,
};
use mq_rules::{Fate, Note, Role, Seen};

/// An event that was found, and the events before it.
#[derive(Clone, Copy)]
pub struct Found<'a> {
    /// The event.
    pub event: &'a Seen,
    /// The events before it, the oldest first.
    pub before: &'a [Seen],
}

/// The earliest event of the current session after these events, if the latest connection has this
/// fate, that passes the first test, with no later one that passes the second.
pub fn earliest_in_session<'a, S: NoteTest, E: NoteTest>(
    role: Role,
    fate: Option<Fate>,
    starts: &S,
    ends: &E,
    before: &'a [Seen],
) -> Option<Found<'a>>
    ensures { moment_in result ≡ earliest_since (λ m. S.test starts.now (note m)) (λ m. E.test ends.now (note m)) (session role fate (reverse before.now)) }
{
    let mut earlier = before;
    let mut fate = fate;
    let mut any = is_any_accepted(role, fate, before);
    let mut found = None;
    while let Some((event, rest)) = earlier.split_last() {
        let is_in = is_in_known_session(role, fate, any, event, rest);
        found = start_at(is_in, starts, event, rest).or(found);
        if stops_at(is_in, begins_at(fate, &event.note), ends, &event.note) {
            return found;
        }
        any = any_before(role, fate, any, &event.note, rest);
        fate = fate_before(role, fate, &event.note, rest);
        earlier = rest;
    }
    found
}

/// The earliest event of the latest connection that passes the first test, with no later one that
/// passes the second.
pub fn earliest_on_connection<'a, S: NoteTest, E: NoteTest>(
    starts: &S,
    ends: &E,
    before: &'a [Seen],
) -> Option<Found<'a>>
    ensures { moment_in result ≡ earliest_since (λ m. S.test starts.now (note m)) (λ m. E.test ends.now (note m)) (connection (reverse before.now)) }
{
    let mut earlier = before;
    let mut found = None;
    while let Some((event, rest)) = earlier.split_last() {
        found = start_at(true, starts, event, rest).or(found);
        if stops_at(true, event.note.is_open(), ends, &event.note) {
            return found;
        }
        earlier = rest;
    }
    found
}

/// The latest event of the current session after these events, if the latest connection has this
/// fate, that passes the test.
pub fn latest_in_session<'a, T: NoteTest>(
    role: Role,
    fate: Option<Fate>,
    test: &T,
    before: &'a [Seen],
) -> Option<Found<'a>>
    ensures { moment_in result ≡ latest (λ m. T.test test.now (note m)) (session role fate (reverse before.now)) }
{
    let mut earlier = before;
    let mut fate = fate;
    while let Some((event, rest)) = earlier.split_last() {
        if passes_in_session(role, fate, test, event, rest) {
            return Some(Found {
                event,
                before: rest,
            });
        }
        if begins_at(fate, &event.note) {
            return None;
        }
        fate = fate_before(role, fate, &event.note, rest);
        earlier = rest;
    }
    None
}

/// Whether in the current session after these events, if the latest connection has this fate, the
/// event that was found is in it, and no later one passes the test.
pub fn still_applies<E: NoteTest>(
    role: Role,
    fate: Option<Fate>,
    found: Found<'_>,
    ends: &E,
    before: &[Seen],
) -> bool
    ensures { result ≡ since (is_same (moment_of found.entry)) (λ m. E.test ends.now (note m)) (session role fate (reverse before.now)) }
{
    let mut earlier = before;
    let mut fate = fate;
    let mut any = is_any_accepted(role, fate, before);
    while let Some((event, rest)) = earlier.split_last() {
        let is_in = is_in_known_session(role, fate, any, event, rest);
        if let Some(answer) = answer_from(is_in, found, ends, event, rest) {
            return answer;
        }
        if begins_at(fate, &event.note) {
            return false;
        }
        any = any_before(role, fate, any, &event.note, rest);
        fate = fate_before(role, fate, &event.note, rest);
        earlier = rest;
    }
    false
}

// What an event decides by itself, if it is in the session.
fn answer_from<E: NoteTest>(
    is_in: bool,
    found: Found<'_>,
    ends: &E,
    event: &Seen,
    before: &[Seen],
) -> Option<bool>
    ensures { result ≡ answer_by (is_in && is_same (moment_of found.entry) (newest event.now (reverse before.now))) (is_in && E.test ends.now event.now.note) }
{
    if !is_in {
        return None;
    }
    if is_before(found, before) {
        return Some(true);
    }
    if ends.passes(&event.note) {
        return Some(false);
    }
    None
}

// Whether the event that was found is the one that comes after these.
#[tactic(auto, using(crate::proofs::LookbackLaws::same_place))]
fn is_before(found: Found<'_>, before: &[Seen]) -> bool
    ensures { result ≡ (length (reverse found.entry.before.now) + 1 == length (reverse before.now) + 1) }
{
    found.before.len() == before.len()
}

// The event, if it is in the scope and passes the test.
fn start_at<'a, S: NoteTest>(
    is_in: bool,
    starts: &S,
    event: &'a Seen,
    before: &'a [Seen],
) -> Option<Found<'a>>
    ensures { moment_in result ≡ cond (is_in && S.test starts.now event.now.note) (Some (newest event.now (reverse before.now))) None }
{
    if is_in && starts.passes(&event.note) {
        return Some(Found { event, before });
    }
    None
}

// Whether nothing before an event counts: the scope begins with it, or it is in the scope and
// passes the test.
fn stops_at<E: NoteTest>(is_in: bool, begins: bool, ends: &E, note: &Note) -> bool
    ensures { result ≡ ((is_in && E.test ends.now note.now) || begins) }
{
    (is_in && ends.passes(note)) || begins
}
