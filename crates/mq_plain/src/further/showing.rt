//! Judging an event by one statement that a later REST of its connection shows.
ghost use Rattle.std.specs.Prelude.{◌≡◌, ◌∷◌, ◌++◌, ◌&&◌, [], cond, reverse, IfOk, OnOk, OnErr};
ghost use Rattle.mq_rules.specs.Notes.{is_rest};
ghost use Rattle.mq_rules.specs.Moments.{newest, IsPlaced};
ghost use Rattle.mq_rules.specs.Connections.{begun};
ghost use Rattle.mq_rules.specs.Rules.{same_rule, binds as is_bound};
ghost use Rattle.mq_rules.specs.Steps.{turns};
ghost use Rattle.mq_rules.specs.Growing.{Gains, GainsWithin};
ghost use Rattle.mq_plain.specs.Shown.{IsShown};
ghost use Rattle.mq_plain.specs.Owed.{owed_on};

use crate::resting::blame;
use mq_log::Place3;
use mq_rules::{Faults, Memory, Rule, Seen, Tested};
use std::alloc::Global;

/// A statement that is false at an event if a later REST of its connection shows it: with the event
/// the tested end comes to owe something, and at the REST it still does.
pub trait LaterStatement {
    ghost use Rattle.std.specs.Prelude.{◌≡◌, ◌&&◌, Bool, reverse};
    ghost use Rattle.mq_rules.specs.declared.role.Role.{Role};
    ghost use Rattle.mq_rules.specs.declared.rule.Rule.{Rule};
    ghost use Rattle.mq_rules.specs.Notes.{is_rest};
    ghost use Rattle.mq_rules.specs.Moments.{Moment, note, newest};
    ghost use Rattle.mq_rules.specs.Statements.{statement, by_later};

    // The statement that is judged.
    ghost judged: { Rule };
    // When it is false at the second moment, as the first one shows, which is a later one of its
    // connection.
    ghost shows: { Moment → Moment → Bool };
    // The moments with which the tested end comes to owe something.
    ghost owing: { Moment → Bool };
    // The moments before which nothing has settled that.
    ghost due: { Moment → Bool };

    /// The statement.
    fn rule() -> Rule
        ensures { result ≡ judged };

    /// Whether the tested end comes to owe something with an event that has these events before it.
    fn owes(event: &Seen, before: &[Seen]) -> bool
        ensures { result ≡ owing (newest event.now (reverse before.now)) };

    /// Whether nothing settles that before an event that has these events before it.
    fn is_due(event: &Seen, before: &[Seen]) -> bool
        ensures { result ≡ due (newest event.now (reverse before.now)) };

    // It is the statement of this rule.
    ghost says: { (role : Role) → statement role judged ≡ by_later shows };
    // It is shown at a REST, by what is owed and due.
    ghost parts: { (t m : Moment) → shows t m ≡ (owing m && (is_rest (note t) && due t)) };
}

/// Adds a fault at each event of the connection that a REST shows to break the statement, if the
/// statement binds the tested end. Another event shows nothing. A pair that already has a fault
/// keeps it; so the first REST that shows a pair decides it.
///
/// # Errors
///
/// `Memory` if there is no memory for a fault, or to look back. Some of the faults may then have
/// been added, but no others.
pub fn judge_later<T: LaterStatement>(
    binds: bool,
    alloc: Global,
    tested: Tested,
    event: &Seen,
    before: &[Seen],
    faults: &mut Faults,
) -> Result<(), Memory>
    ensures ok { binds ≡ is_bound T.judged tested → IsPlaced (reverse before.now) → OnOk result (Gains (λ k r. same_rule r T.judged && turns tested event.now (reverse before.now) k r) tested (event.now ∷ reverse before.now) event.now.place.position faults.old faults.new) }
    ensures memory { binds ≡ is_bound T.judged tested → IsPlaced (reverse before.now) → OnErr result (GainsWithin (λ k r. same_rule r T.judged && turns tested event.now (reverse before.now) k r) tested (event.now ∷ reverse before.now) event.now.place.position faults.old faults.new) }
{
    let shows = is_showing::<T>(binds, event, before);
    if !shows {
        return Ok(());
    }
    let places = owed_places::<T>(alloc, before)?;
    blame(T::rule(), event.place.position, &places, faults)?;
    Ok(())
}

// Whether an event with these events before it is a REST at which something is due, of a statement
// that binds the tested end. One that binds only the other end isn't evaluated.
fn is_showing<T: LaterStatement>(binds: bool, event: &Seen, before: &[Seen]) -> bool
    ensures { result ≡ (binds && (is_rest event.now.note && T.due (newest event.now (reverse before.now)))) }
{
    binds && event.note.is_rest() && T::is_due(event, before)
}

// The places of the events of the latest connection with which the tested end comes to owe
// something.
//
// Errors: `Memory` if there is no memory for them.
fn owed_places<T: LaterStatement>(alloc: Global, before: &[Seen]) -> Result<Vec<Place3>, Memory>
    ensures { IsPlaced (reverse before.now) → IfOk result (λ places. IsShown (owed_on T.owing (begun (reverse before.now))) (reverse before.now) places.items) }
{
    let mut places = Vec::new(alloc);
    let mut earlier = before;
    while let Some((event, rest)) = earlier.split_last() {
        add_owed::<T>(event, rest, &mut places)?;
        if event.note.is_open() {
            return Ok(places);
        }
        earlier = rest;
    }
    Ok(places)
}

// Adds the place of an event, if the tested end comes to owe something with it.
//
// Errors: `Memory` if there is no memory for it.
fn add_owed<T: LaterStatement>(
    event: &Seen,
    before: &[Seen],
    places: &mut Vec<Place3>,
) -> Result<(), Memory>
    ensures { OnOk result (places.new.items ≡ cond (T.owing (newest event.now (reverse before.now))) (places.old.items ++ event.now.place ∷ []) places.old.items) }
{
    if T::owes(event, before) {
        places.push(event.place)?;
    }
    Ok(())
}
