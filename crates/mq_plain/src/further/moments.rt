//! Tests on an event with what comes before it, and looking back over a connection, or over a
//! session, with them.
ghost use Rattle.std.specs.Prelude.{◌≡◌, reverse};
ghost use Rattle.mq_rules.specs.Moments.{latest, newest, since, some};
ghost use Rattle.mq_rules.specs.Connections.{connection, session};
ghost use Rattle.mq_rules.specs.FurtherRests.{is_first_of};
ghost use Rattle.mq_plain.specs.Finding.{moment_in};

use crate::earliest::Found;
use crate::session::{begins_at, fate_before, is_in_session};
use mq_rules::{Fate, Role, Seen};

/// A test on an event and on what comes before it.
pub trait MomentTest {
    ghost use Rattle.std.specs.Prelude.{◌≡◌, Bool, reverse};
    ghost use Rattle.mq_rules.specs.Moments.{Moment, newest};

    // The moments that pass.
    ghost test: { Self → Moment → Bool };

    /// Whether an event with these events before it passes.
    fn passes(&self, event: &Seen, before: &[Seen]) -> bool
        ensures { result ≡ test self.now (newest event.now (reverse before.now)) };
}

/// Whether an event passes the test, and none before it on its connection does.
pub fn is_first<T: MomentTest>(test: &T, event: &Seen, before: &[Seen]) -> bool
    ensures { result ≡ is_first_of (T.test test.now) (newest event.now (reverse before.now)) }
{
    test.passes(event, before) && !some_moment(test, before)
}

// Whether some event of the latest connection passes the test.
fn some_moment<T: MomentTest>(test: &T, before: &[Seen]) -> bool
    ensures { result ≡ some (T.test test.now) (connection (reverse before.now)) }
{
    let mut earlier = before;
    while let Some((event, rest)) = earlier.split_last() {
        if test.passes(event, rest) {
            return true;
        }
        if event.note.is_open() {
            return false;
        }
        earlier = rest;
    }
    false
}

/// Whether on the latest connection some event passes the first test, and no later one the second.
pub fn since_moment<S: MomentTest, E: MomentTest>(starts: &S, ends: &E, before: &[Seen]) -> bool
    ensures { result ≡ since (S.test starts.now) (E.test ends.now) (connection (reverse before.now)) }
{
    let mut earlier = before;
    while let Some((event, rest)) = earlier.split_last() {
        if starts.passes(event, rest) {
            return true;
        }
        if ends.passes(event, rest) {
            return false;
        }
        if event.note.is_open() {
            return false;
        }
        earlier = rest;
    }
    false
}

/// The latest event of the latest connection that passes the test.
pub fn latest_moment<'a, T: MomentTest>(test: &T, before: &'a [Seen]) -> Option<Found<'a>>
    ensures { moment_in result ≡ latest (T.test test.now) (connection (reverse before.now)) }
{
    let mut earlier = before;
    while let Some((event, rest)) = earlier.split_last() {
        if test.passes(event, rest) {
            return Some(Found {
                event,
                before: rest,
            });
        }
        if event.note.is_open() {
            return None;
        }
        earlier = rest;
    }
    None
}

/// Whether some event of the current session after these events, if the latest connection has this
/// fate, passes the test.
pub fn some_moment_in_session<T: MomentTest>(
    role: Role,
    fate: Option<Fate>,
    test: &T,
    before: &[Seen],
) -> bool
    ensures { result ≡ some (T.test test.now) (session role fate (reverse before.now)) }
{
    let mut earlier = before;
    let mut fate = fate;
    while let Some((event, rest)) = earlier.split_last() {
        if test.passes(event, rest) && is_in_session(role, fate, event, rest) {
            return true;
        }
        if begins_at(fate, &event.note) {
            return false;
        }
        fate = fate_before(role, fate, &event.note, rest);
        earlier = rest;
    }
    false
}
