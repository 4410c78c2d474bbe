//! Judging an event by one statement on the past of a session.
ghost use Rattle.std.specs.Prelude.{◌≡◌, ◌∷◌, ◌&&◌, reverse, IfOk, OnOk, OnErr};
ghost use Rattle.mq_rules.specs.Moments.{newest};
ghost use Rattle.mq_rules.specs.Connections.{accepts as is_accepting};
ghost use Rattle.mq_rules.specs.Rules.{same_rule, binds as is_bound};
ghost use Rattle.mq_rules.specs.Under.{turns_with};
ghost use Rattle.mq_rules.specs.Growing.{Gains};
ghost use Rattle.mq_plain.specs.Events.{ComesNext};

use crate::adding::add_fault;
use crate::session::accepts;
use crate::turn::Turn;
use mq_rules::{Fate, Faults, Memory, Role, Rule, Seen};
use std::alloc::Global;

/// A statement on the past of a session: it is judged on accepted connections.
pub trait SessionStatement {
    ghost use Rattle.std.specs.Prelude.{◌≡◌, Bool, IfOk, reverse};
    ghost use Rattle.mq_rules.specs.declared.role.Role.{Role};
    ghost use Rattle.mq_rules.specs.declared.fate.Fate.{Fate};
    ghost use Rattle.mq_rules.specs.declared.rule.Rule.{Rule};
    ghost use Rattle.mq_rules.specs.Moments.{Moment, newest};
    ghost use Rattle.mq_rules.specs.Statements.{statement, in_session};

    // The statement that is judged.
    ghost judged: { Rule };
    // When it is false.
    ghost breaks: { Role → Fate → Moment → Bool };

    /// The statement.
    fn rule() -> Rule
        ensures { result ≡ judged };

    /// Whether an event with these events before it breaks the statement; its connection is
    /// accepted and has this fate.
    ///
    /// # Errors
    ///
    /// `Memory` if there is no memory to look back.
    fn is_broken(
        alloc: Global,
        role: Role,
        fate: Fate,
        event: &Seen,
        before: &[Seen],
    ) -> Result<bool, Memory>
        ensures { IfOk result (λ broken. broken ≡ breaks role fate (newest event.now (reverse before.now))) };

    // It is the statement of this rule.
    ghost says: { (role : Role) → statement role judged ≡ in_session (breaks role) };
}

/// Judges an event that has these events before it: it has a fault if the statement binds the
/// tested end and is broken. A pair that already has a fault keeps it.
///
/// # Errors
///
/// `Memory` if there is no memory for a fault, or to look back. The faults are then unchanged.
#[inline(always)]
pub fn judge_session<T: SessionStatement>(
    binds: bool,
    alloc: Global,
    turn: Turn,
    event: &Seen,
    before: &[Seen],
    faults: &mut Faults,
) -> Result<(), Memory>
    ensures ok { binds ≡ is_bound T.judged turn.tested → ComesNext turn event.now (reverse before.now) → OnOk result (Gains (λ k r. same_rule r T.judged && turns_with turn.tested turn.fate event.now (reverse before.now) k r) turn.tested (event.now ∷ reverse before.now) turn.decided faults.old faults.new) }
    ensures unchanged { OnErr result (faults.new ≡ faults.old) }
{
    let broken = is_fault_at::<T>(alloc, binds, turn.tested.role, turn.fate, event, before)?;
    if !broken {
        return Ok(());
    }
    add_fault(T::rule(), turn.decided, event.place, faults)?;
    Ok(())
}

// Whether an event with these events before it has a fault: the statement binds the tested end, and
// is broken. Its connection has this fate. A statement that binds only the other end isn't
// evaluated.
#[inline(always)]
fn is_fault_at<T: SessionStatement>(
    alloc: Global,
    binds: bool,
    role: Role,
    fate: Fate,
    event: &Seen,
    before: &[Seen],
) -> Result<bool, Memory>
    ensures { IfOk result (λ fault. fault ≡ (binds && (is_accepting fate && T.breaks role fate (newest event.now (reverse before.now))))) }
{
    if binds && accepts(fate) {
        return T::is_broken(alloc, role, fate, event, before);
    }
    Ok(false)
}
