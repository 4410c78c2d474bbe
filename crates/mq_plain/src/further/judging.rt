//! Judging an event by one statement on one packet and on the past of its connection.
ghost use Rattle.std.specs.Prelude.{◌≡◌, ◌∷◌, ◌+◌, ◌&&◌, length, reverse, OnOk, OnErr};
ghost use Rattle.mq_rules.specs.Moments.{newest};
ghost use Rattle.mq_rules.specs.Rules.{same_rule, binds as is_bound};
ghost use Rattle.mq_rules.specs.Steps.{turns};
ghost use Rattle.mq_rules.specs.Growing.{Gains};

use crate::adding::add_fault;
use mq_rules::{Faults, Memory, Role, Rule, Seen, Tested};

/// A statement on one packet and on the past of its connection. It is judged on every connection.
pub trait PastStatement {
    ghost use Rattle.std.specs.Prelude.{◌≡◌, Bool, reverse};
    ghost use Rattle.mq_rules.specs.declared.role.Role.{Role};
    ghost use Rattle.mq_rules.specs.declared.rule.Rule.{Rule};
    ghost use Rattle.mq_rules.specs.Moments.{Moment, newest};
    ghost use Rattle.mq_rules.specs.Statements.{statement, on_past};

    // The statement that is judged.
    ghost judged: { Rule };
    // When it is false.
    ghost breaks: { Role → Moment → Bool };

    /// The statement.
    fn rule() -> Rule
        ensures { result ≡ judged };

    /// Whether an event with these events before it breaks the statement.
    fn is_broken(role: Role, event: &Seen, before: &[Seen]) -> bool
        ensures { result ≡ breaks role (newest event.now (reverse before.now)) };

    // It is the statement of this rule.
    ghost says: { (role : Role) → statement role judged ≡ on_past (breaks role) };
}

/// Judges an event that has these events before it: it has a fault if the statement binds the
/// tested end and is broken. A pair that already has a fault keeps it.
///
/// # Errors
///
/// `Memory` if there is no memory for a fault. The faults are then unchanged.
pub fn judge_past<T: PastStatement>(
    binds: bool,
    tested: Tested,
    event: &Seen,
    before: &[Seen],
    faults: &mut Faults,
) -> Result<(), Memory>
    ensures ok { binds ≡ is_bound T.judged tested → event.now.place.position ≡ length (reverse before.now) + 1 → OnOk result (Gains (λ k r. same_rule r T.judged && turns tested event.now (reverse before.now) k r) tested (event.now ∷ reverse before.now) event.now.place.position faults.old faults.new) }
    ensures unchanged { OnErr result (faults.new ≡ faults.old) }
{
    let broken = is_fault_at::<T>(binds, tested.role, event, before);
    if !broken {
        return Ok(());
    }
    add_fault(T::rule(), event.place.position, event.place, faults)?;
    Ok(())
}

// Whether an event with these events before it has a fault: the statement binds the tested end, and
// is broken. A statement that binds only the other end isn't evaluated.
fn is_fault_at<T: PastStatement>(binds: bool, role: Role, event: &Seen, before: &[Seen]) -> bool
    ensures { result ≡ (binds && T.breaks role (newest event.now (reverse before.now))) }
{
    binds && T::is_broken(role, event, before)
}
