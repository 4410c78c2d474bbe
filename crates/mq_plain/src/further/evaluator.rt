//! Evaluators: each judges one event of a list by some statements on connections, and two of them
//! make one that runs one after the other. One pass over the list runs one.
//!
//! An evaluator is a value that knows which of its statements bind the tested end, so that this is
//! looked up once and not at each event.
ghost use Rattle.std.specs.Prelude.{reverse, OnOk, OnErr};
ghost use Rattle.mq_rules.specs.Moments.{IsPlaced};
ghost use Rattle.mq_rules.specs.Faults.{Grows, GrowsWithin};

use crate::further::judging::{PastStatement, judge_past};
use crate::further::showing::{LaterStatement, judge_later};
use mq_rules::{Faults, Memory, Seen, Tested};
use std::alloc::Global;
use std::marker::PhantomData;

/// Judges an event by some statements on connections, at once, with no fate to wait for.
pub trait AtOnce: Drop {
    ghost use Rattle.std.specs.Prelude.{Bool, ◌∷◌, ◌&&◌, reverse, OnOk, OnErr};
    ghost use Rattle.mq_rules.specs.declared.role.Tested.{Tested};
    ghost use Rattle.mq_rules.specs.declared.rule.Rule.{Rule};
    ghost use Rattle.mq_rules.specs.Moments.{IsPlaced};
    ghost use Rattle.mq_rules.specs.Steps.{turns};
    ghost use Rattle.mq_rules.specs.Growing.{Gains, GainsWithin};

    // The statements that are judged.
    ghost chosen: { Rule → Bool };
    // The evaluator is for this end.
    ghost is_for: { Self → Tested → Type 0 };

    /// The evaluator for this end.
    fn of(tested: Tested) -> Self
        ensures { is_for result tested };

    /// Judges an event that has these events before it. A pair that already has a fault keeps it.
    ///
    /// # Errors
    ///
    /// `Memory` if there is no memory. Some of the faults that the event shows may then have been
    /// added, but no others.
    fn judge_at(
        &self,
        alloc: Global,
        tested: Tested,
        event: &Seen,
        before: &[Seen],
        faults: &mut Faults,
    ) -> Result<(), Memory>
        ensures ok { is_for self.now tested → IsPlaced (event.now ∷ reverse before.now) → OnOk result (Gains (λ k r. chosen r && turns tested event.now (reverse before.now) k r) tested (event.now ∷ reverse before.now) event.now.place.position faults.old faults.new) }
        ensures memory { is_for self.now tested → IsPlaced (event.now ∷ reverse before.now) → OnErr result (GainsWithin (λ k r. chosen r && turns tested event.now (reverse before.now) k r) tested (event.now ∷ reverse before.now) event.now.place.position faults.old faults.new) };
}

/// An evaluator of one statement on one packet and on the past of its connection.
#[derive(Drop)]
pub struct OnPasts<T> {
    binds: bool,
    of: PhantomData<T>,
}

impl<T: PastStatement> AtOnce for OnPasts<T> {
    ghost use Rattle.std.specs.Prelude.{◌≡◌};
    ghost use Rattle.mq_rules.specs.Rules.{same_rule, binds};

    ghost chosen = { λ r. same_rule r T.judged };

    ghost is_for = { λ t tested. t.binds ≡ binds T.judged tested };

    fn of(tested: Tested) -> Self {
        OnPasts {
            binds: T::rule().is_judged(tested),
            of: PhantomData,
        }
    }

    fn judge_at(
        &self,
        _alloc: Global,
        tested: Tested,
        event: &Seen,
        before: &[Seen],
        faults: &mut Faults,
    ) -> Result<(), Memory> {
        judge_past::<T>(self.binds, tested, event, before, faults)
    }
}

/// An evaluator of one statement that a later REST of the connection shows.
#[derive(Drop)]
pub struct OnLater<T> {
    binds: bool,
    of: PhantomData<T>,
}

impl<T: LaterStatement> AtOnce for OnLater<T> {
    ghost use Rattle.std.specs.Prelude.{◌≡◌};
    ghost use Rattle.mq_rules.specs.Rules.{same_rule, binds};

    ghost chosen = { λ r. same_rule r T.judged };

    ghost is_for = { λ t tested. t.binds ≡ binds T.judged tested };

    fn of(tested: Tested) -> Self {
        OnLater {
            binds: T::rule().is_judged(tested),
            of: PhantomData,
        }
    }

    fn judge_at(
        &self,
        alloc: Global,
        tested: Tested,
        event: &Seen,
        before: &[Seen],
        faults: &mut Faults,
    ) -> Result<(), Memory> {
        judge_later::<T>(self.binds, alloc, tested, event, before, faults)
    }
}

/// An evaluator of the statements of the first, and then of those of the second.
#[derive(Drop)]
pub struct Also<A, B> {
    first: A,
    second: B,
}

impl<A: AtOnce, B: AtOnce> AtOnce for Also<A, B> {
    ghost use Rattle.std.specs.Prelude.{◌||◌};

    ghost chosen = { λ r. A.chosen r || B.chosen r };

    ghost is_for = { λ t tested. A.is_for t.first tested × B.is_for t.second tested };

    fn of(tested: Tested) -> Self {
        Also {
            first: A::of(tested),
            second: B::of(tested),
        }
    }

    #[tactic(auto, using(mq_rules::proofs::GainLaws::gains_either, mq_rules::proofs::GainLaws::within_either_first, mq_rules::proofs::GainLaws::within_either_second))]
    fn judge_at(
        &self,
        alloc: Global,
        tested: Tested,
        event: &Seen,
        before: &[Seen],
        faults: &mut Faults,
    ) -> Result<(), Memory> {
        self.first.judge_at(alloc, tested, event, before, faults)?;
        self.second.judge_at(alloc, tested, event, before, faults)
    }
}

/// Judges each event by what comes before it in the list, the oldest first. A pair that already has
/// a fault keeps it.
///
/// # Errors
///
/// `Memory` if there is no memory. Some of the faults of the evaluator's statements may then have
/// been added, but no others.
pub fn judge_events<E: AtOnce>(
    alloc: Global,
    tested: Tested,
    seen: &[Seen],
    faults: &mut Faults,
) -> Result<(), Memory>
    ensures ok { IsPlaced (reverse seen.now) → OnOk result (Grows E.chosen tested (reverse seen.now) faults.old faults.new) }
    ensures memory { IsPlaced (reverse seen.now) → OnErr result (GrowsWithin E.chosen tested (reverse seen.now) faults.old faults.new) }
{
    let evaluator = E::of(tested);
    for (i, event) in seen.iter().enumerate() {
        let before = &seen[..i];
        evaluator.judge_at(alloc, tested, event, before, faults)?;
    }
    Ok(())
}
