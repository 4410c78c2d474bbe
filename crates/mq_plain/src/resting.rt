//! Judging an event by one statement that a later REST shows.
ghost use Rattle.std.specs.Prelude.{◌≡◌, ◌∷◌, ◌&&◌, reverse, OnOk, OnErr};
ghost use Rattle.mq_rules.specs.Rules.{same_rule, binds as is_bound};
ghost use Rattle.mq_rules.specs.Under.{turns_with};
ghost use Rattle.mq_rules.specs.Growing.{Gains, GainsWithin};
ghost use Rattle.mq_plain.specs.Blames.{Blames, BlamesWithin};
ghost use Rattle.mq_plain.specs.Events.{ComesNext};

use crate::adding::add_fault;
use crate::turn::Turn;
use mq_log::Place3;
use mq_rules::{Faults, Memory, Role, Rule, Seen};
use std::alloc::Global;

/// A statement that is false at an event if a later binding REST shows it.
pub trait RestStatement {
    ghost use Rattle.std.specs.Prelude.{◌≡◌, Bool, IfOk, reverse};
    ghost use Rattle.mq_rules.specs.declared.role.Role.{Role};
    ghost use Rattle.mq_rules.specs.declared.rule.Rule.{Rule};
    ghost use Rattle.mq_rules.specs.Moments.{Moment, newest, IsPlaced};
    ghost use Rattle.mq_rules.specs.Statements.{statement, at_rest};
    ghost use Rattle.mq_plain.specs.Shown.{IsShown};

    // The statement that is judged.
    ghost judged: { Rule };
    // When it is false at the second moment, as the first one shows, which is a later binding REST.
    ghost shows: { Role → Moment → Moment → Bool };

    /// The statement.
    fn rule() -> Rule
        ensures { result ≡ judged };

    /// The places of the events that break the statement, as a REST with these events before it
    /// shows.
    ///
    /// # Errors
    ///
    /// `Memory` if there is no memory for them, or to look back.
    fn shown(alloc: Global, role: Role, rest: &Seen, before: &[Seen]) -> Result<Vec<Place3>, Memory>
        ensures { IsPlaced (reverse before.now) → IfOk result (λ places. IsShown (shows role (newest rest.now (reverse before.now))) (reverse before.now) places.items) };

    // It is the statement of this rule.
    ghost says: { (role : Role) → statement role judged ≡ at_rest (shows role) };
}

/// Adds a fault at each event that a REST shows to break the statement, if the statement binds the
/// tested end. An event other than a binding REST shows nothing. A pair that already has a fault
/// keeps it; so the first REST that shows a pair decides it.
///
/// # Errors
///
/// `Memory` if there is no memory for a fault, or to look back. Some of the faults may then have
/// been added, but no others.
#[inline(always)]
pub fn judge_rest<T: RestStatement>(
    binds: bool,
    alloc: Global,
    turn: Turn,
    event: &Seen,
    before: &[Seen],
    faults: &mut Faults,
) -> Result<(), Memory>
    ensures ok { binds ≡ is_bound T.judged turn.tested → ComesNext turn event.now (reverse before.now) → OnOk result (Gains (λ k r. same_rule r T.judged && turns_with turn.tested turn.fate event.now (reverse before.now) k r) turn.tested (event.now ∷ reverse before.now) turn.decided faults.old faults.new) }
    ensures memory { binds ≡ is_bound T.judged turn.tested → ComesNext turn event.now (reverse before.now) → OnErr result (GainsWithin (λ k r. same_rule r T.judged && turns_with turn.tested turn.fate event.now (reverse before.now) k r) turn.tested (event.now ∷ reverse before.now) turn.decided faults.old faults.new) }
{
    if !binds {
        return Ok(());
    }
    if !turn.rests {
        return Ok(());
    }
    let places = T::shown(alloc, turn.tested.role, event, before)?;
    blame(T::rule(), turn.decided, &places, faults)?;
    Ok(())
}

/// Adds a fault of a statement at each of these places, decided at this position. A pair that
/// already has a fault keeps it.
///
/// # Errors
///
/// `Memory` if there is no memory for a fault. Some of the faults may then have been added, but no
/// others.
pub fn blame(rule: Rule, decided: u32, places: &[Place3], faults: &mut Faults) -> Result<(), Memory>
    ensures ok { OnOk result (Blames rule decided places.now faults.old faults.new) }
    ensures memory { OnErr result (BlamesWithin rule decided places.now faults.old faults.new) }
{
    for place in places {
        add_fault(rule, decided, *place, faults)?;
    }
    Ok(())
}
