//! Looking back over a session.
ghost use Rattle.std.specs.Prelude.{◌≡◌, ◌<◌, ◌∷◌, ◌&&◌, not, cond, length, option_map, reverse, IfSome};
ghost use Rattle.mq_rules.specs.Notes.{is_open};
ghost use Rattle.mq_rules.specs.declared.note.Seen.{Seen as TheSeen};
ghost use Rattle.mq_rules.specs.Moments.{newest, note, some, since};
ghost use Rattle.mq_rules.specs.Connections.{accepts as is_accepting, any_accepted, accepted, begins, comes_early, has_session, is_placed_release, latest_fate, session, voided};
ghost use Rattle.mq_rules.specs.Connections as connections;
ghost use Rattle.mq_rules.specs.Passing.{before_latest as earlier_than};
ghost use Rattle.mq_plain.specs.Lookback.{answer_by};

use crate::connection::latest_fate_of;
use crate::lookback::{Never, NoteTest};
use mq_rules::{Fate, Note, Role, Seen};

/// Whether in the current session after these events, if the latest connection has this fate, some
/// event passes the first test, and no later one the second.
pub fn since_in_session<S: NoteTest, E: NoteTest>(
    role: Role,
    fate: Option<Fate>,
    starts: &S,
    ends: &E,
    before: &[Seen],
) -> bool
    ensures { result ≡ since (λ m. S.test starts.now (note m)) (λ m. E.test ends.now (note m)) (session role fate (reverse before.now)) }
{
    let mut earlier = before;
    let mut fate = fate;
    while let Some((event, rest)) = earlier.split_last() {
        if let Some(answer) = answer_at(role, fate, starts, ends, event, rest) {
            return answer;
        }
        if begins_at(fate, &event.note) {
            return false;
        }
        fate = fate_before(role, fate, &event.note, rest);
        earlier = rest;
    }
    false
}

/// Whether in the current session after these events, if the latest connection has this fate, some
/// event passes the test.
#[tactic(auto, using(crate::proofs::LookbackLaws::some_since))]
pub fn some_in_session<T: NoteTest>(
    role: Role,
    fate: Option<Fate>,
    test: &T,
    before: &[Seen],
) -> bool
    ensures { result ≡ some (λ m. T.test test.now (note m)) (session role fate (reverse before.now)) }
{
    since_in_session(role, fate, test, &Never, before)
}

/// Whether an event is in the session and passes the test, which comes first, since few events
/// pass.
pub fn passes_in_session<T: NoteTest>(
    role: Role,
    fate: Option<Fate>,
    test: &T,
    event: &Seen,
    before: &[Seen],
) -> bool
    ensures { result ≡ (has_session role fate event.now (reverse before.now) && T.test test.now event.now.note) }
{
    if !test.passes(&event.note) {
        return false;
    }
    is_in_session(role, fate, event, before)
}

/// The events before the OPEN of the latest connection, if there is one.
pub fn before_latest(before: &[Seen]) -> Option<&[Seen]>
    ensures exact { option_map (λ rest. reverse rest.now) result ≡ earlier_than (reverse before.now) }
    ensures fewer { IfSome result (λ rest. length rest.now < length before.now) }
{
    let mut earlier = before;
    while let Some((event, rest)) = earlier.split_last() {
        if event.note.is_open() {
            return Some(rest);
        }
        earlier = rest;
    }
    None
}

// What an event decides by itself, if it is in the session. The tests come first, since few events
// pass them.
fn answer_at<S: NoteTest, E: NoteTest>(
    role: Role,
    fate: Option<Fate>,
    starts: &S,
    ends: &E,
    event: &Seen,
    before: &[Seen],
) -> Option<bool>
    ensures { result ≡ answer_by (has_session role fate event.now (reverse before.now) && S.test starts.now event.now.note) (has_session role fate event.now (reverse before.now) && E.test ends.now event.now.note) }
{
    let is_start = starts.passes(&event.note);
    if !is_start && !ends.passes(&event.note) {
        return None;
    }
    if is_in_session(role, fate, event, before) {
        return Some(is_start);
    }
    None
}

/// Whether the session begins with the connection, which has this fate, at this event.
pub fn begins_at(fate: Option<Fate>, note: &Note) -> bool
    ensures { result ≡ (is_open note.now && begins fate) }
{
    note.is_open() && is_begun(fate)
}

/// The fate of the latest connection before an event, given the fate of the latest one after it.
pub fn fate_before(role: Role, fate: Option<Fate>, note: &Note, before: &[Seen]) -> Option<Fate>
    ensures { result ≡ cond (is_open note.now) (latest_fate role (reverse before.now)) fate }
{
    if note.is_open() {
        return latest_fate_of(role, before);
    }
    fate
}

/// Whether an event on or after the latest connection, which has this fate, is in a session.
pub fn is_in_session(role: Role, fate: Option<Fate>, event: &Seen, before: &[Seen]) -> bool
    ensures { result ≡ has_session role fate event.now (reverse before.now) }
{
    is_accepted(fate)
        || (event.note.is_release() && is_voided(fate) && is_any_accepted(role, fate, before))
}

/// Whether an event on or after the latest connection, which has this fate, is in a session; `any`
/// says whether some connection up to the event is accepted.
#[tactic(auto, using(crate::proofs::LookbackLaws::in_known))]
pub fn is_in_known_session(
    role: Role,
    fate: Option<Fate>,
    any: bool,
    event: &Seen,
    before: &[Seen],
) -> bool
    ensures { any ≡ any_accepted role fate (event.now ∷ reverse before.now) → result ≡ has_session role fate event.now (reverse before.now) }
{
    is_accepted(fate) || (event.note.is_release() && is_voided(fate) && any)
}

/// Whether some connection before an event is accepted, if the latest one has this fate; `any` says
/// the same of those up to the event.
pub fn any_before(role: Role, fate: Option<Fate>, any: bool, note: &Note, before: &[Seen]) -> bool
    ensures { result ≡ cond (is_open note.now && accepted fate) (any_accepted role (latest_fate role (reverse before.now)) (reverse before.now)) any }
{
    if accepts_at(fate, note) {
        return is_any_accepted(role, latest_fate_of(role, before), before);
    }
    any
}

/// Whether the connection is accepted.
pub fn is_accepted(fate: Option<Fate>) -> bool
    ensures { result ≡ accepted fate }
{
    match fate {
        Some(fate) => fate.accepts(),
        None => false,
    }
}

// Whether the connection is accepted, and a session begins with it.
fn is_begun(fate: Option<Fate>) -> bool
    ensures { result ≡ begins fate }
{
    match fate {
        Some(fate) => fate.begins(),
        None => false,
    }
}

/// Whether the connection is decided, and not accepted.
pub fn is_voided(fate: Option<Fate>) -> bool
    ensures { result ≡ voided fate }
{
    match fate {
        Some(fate) => fate.is_void(),
        None => false,
    }
}

/// Whether some connection of these events is accepted, if the latest one has this fate.
pub fn is_any_accepted(role: Role, fate: Option<Fate>, before: &[Seen]) -> bool
    ensures { result ≡ any_accepted role fate (reverse before.now) }
{
    let mut earlier = before;
    let mut fate = fate;
    while let Some((event, rest)) = earlier.split_last() {
        if accepts_at(fate, &event.note) {
            return true;
        }
        fate = fate_before(role, fate, &event.note, rest);
        earlier = rest;
    }
    false
}

// Whether a connection begins at this event, and is accepted.
fn accepts_at(fate: Option<Fate>, note: &Note) -> bool
    ensures { result ≡ (is_open note.now && accepted fate) }
{
    note.is_open() && is_accepted(fate)
}

/// Whether an event after these comes before the CONNACK of its connection, though it is no OPEN.
pub fn is_early(role: Role, before: &[Seen]) -> bool
    ensures { (e : TheSeen) → result ≡ comes_early role (newest e (reverse before.now)) }
{
    latest_fate_of(role, before).is_none()
}

/// Whether a client couldn't know, at an event after these, that a session would be resumed, if its
/// connection has this fate.
pub fn couldnt_know_resumed(role: Role, fate: Fate, before: &[Seen]) -> bool
    ensures { (e : TheSeen) → result ≡ connections.couldnt_know_resumed role fate (newest e (reverse before.now)) }
{
    both(fate.is_unasked(), is_early(role, before))
}

/// Whether a client couldn't know, at an event after these, which session it would have, if its
/// connection has this fate.
pub fn couldnt_know(role: Role, fate: Fate, before: &[Seen]) -> bool
    ensures { (e : TheSeen) → result ≡ connections.couldnt_know role fate (newest e (reverse before.now)) }
{
    both(fate.surprises(), is_early(role, before))
}

/// Whether it is known, at a RELEASE after these events, to which session the message belongs, if
/// the latest connection has this fate.
pub fn is_placed(role: Role, fate: Fate, before: &[Seen]) -> bool
    ensures { (e : TheSeen) → result ≡ is_placed_release role fate (newest e (reverse before.now)) }
{
    both(
        !fate.is_untold(),
        !both(fate.begins(), is_early(role, before)),
    )
}

// Whether both hold, of which the second is found out in any case.
fn both(first: bool, second: bool) -> bool
    ensures { result ≡ (first && second) }
{
    first && second
}

/// What is broken, unless the end couldn't know.
pub fn unless_unknown(broken: bool, unknown: bool) -> bool
    ensures { result ≡ (broken && not unknown) }
{
    broken && !unknown
}

/// What is broken, where it is placed.
pub fn where_placed(broken: bool, placed: bool) -> bool
    ensures { result ≡ (broken && placed) }
{
    broken && placed
}

/// Whether a connection with this fate is accepted.
pub fn accepts(fate: Fate) -> bool
    ensures { result ≡ is_accepting fate }
{
    fate.accepts()
}
