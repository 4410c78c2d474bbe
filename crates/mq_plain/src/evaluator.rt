//! Evaluators: each judges one event of a list by some statements, and two of them make one that
//! runs one after the other.
//!
//! An evaluator is a value that knows which of its statements bind the tested end, so that this is
//! looked up once and not at each event.

use crate::judging::{SessionStatement, judge_session};
use crate::releasing::{ReleaseStatement, judge_release};
use crate::resting::{RestStatement, judge_rest};
use crate::turn::Turn;
use mq_rules::{Faults, Memory, Seen, Tested};
use std::alloc::Global;
use std::marker::PhantomData;

/// Judges an event by some statements.
pub trait Evaluator: Drop {
    ghost use Rattle.std.specs.Prelude.{Bool, ◌∷◌, ◌&&◌, reverse, OnOk, OnErr};
    ghost use Rattle.mq_rules.specs.declared.role.Tested.{Tested};
    ghost use Rattle.mq_rules.specs.declared.rule.Rule.{Rule};
    ghost use Rattle.mq_rules.specs.Under.{turns_with};
    ghost use Rattle.mq_rules.specs.Growing.{Gains, GainsWithin};
    ghost use Rattle.mq_plain.specs.Events.{ComesNext};

    // The statements that are judged.
    ghost chosen: { Rule → Bool };
    // The evaluator is for this end.
    ghost is_for: { Self → Tested → Type 0 };

    /// The evaluator for this end.
    fn of(tested: Tested) -> Self
        ensures { is_for result tested };

    /// Judges an event that has these events before it, under the fate of its connection. A pair
    /// that already has a fault keeps it.
    ///
    /// # Errors
    ///
    /// `Memory` if there is no memory. Some of the faults that the event shows may then have been
    /// added, but no others.
    fn judge_at(
        &self,
        alloc: Global,
        turn: Turn,
        event: &Seen,
        before: &[Seen],
        faults: &mut Faults,
    ) -> Result<(), Memory>
        ensures ok { is_for self.now turn.tested → ComesNext turn event.now (reverse before.now) → OnOk result (Gains (λ k r. chosen r && turns_with turn.tested turn.fate event.now (reverse before.now) k r) turn.tested (event.now ∷ reverse before.now) turn.decided faults.old faults.new) }
        ensures memory { is_for self.now turn.tested → ComesNext turn event.now (reverse before.now) → OnErr result (GainsWithin (λ k r. chosen r && turns_with turn.tested turn.fate event.now (reverse before.now) k r) turn.tested (event.now ∷ reverse before.now) turn.decided faults.old faults.new) };
}

/// An evaluator of one statement on the past of a session.
#[derive(Drop)]
pub struct OnSessions<T> {
    binds: bool,
    of: PhantomData<T>,
}

impl<T: SessionStatement> Evaluator for OnSessions<T> {
    ghost use Rattle.std.specs.Prelude.{◌≡◌};
    ghost use Rattle.mq_rules.specs.Rules.{same_rule, binds};

    ghost chosen = { λ r. same_rule r T.judged };

    ghost is_for = { λ t tested. t.binds ≡ binds T.judged tested };

    fn of(tested: Tested) -> Self {
        OnSessions {
            binds: T::rule().is_judged(tested),
            of: PhantomData,
        }
    }

    #[inline(always)]
    fn judge_at(
        &self,
        alloc: Global,
        turn: Turn,
        event: &Seen,
        before: &[Seen],
        faults: &mut Faults,
    ) -> Result<(), Memory> {
        judge_session::<T>(self.binds, alloc, turn, event, before, faults)
    }
}

/// An evaluator of one statement on releases.
#[derive(Drop)]
pub struct OnReleases<T> {
    binds: bool,
    of: PhantomData<T>,
}

impl<T: ReleaseStatement> Evaluator for OnReleases<T> {
    ghost use Rattle.std.specs.Prelude.{◌≡◌};
    ghost use Rattle.mq_rules.specs.Rules.{same_rule, binds};

    ghost chosen = { λ r. same_rule r T.judged };

    ghost is_for = { λ t tested. t.binds ≡ binds T.judged tested };

    fn of(tested: Tested) -> Self {
        OnReleases {
            binds: T::rule().is_judged(tested),
            of: PhantomData,
        }
    }

    #[inline(always)]
    fn judge_at(
        &self,
        _alloc: Global,
        turn: Turn,
        event: &Seen,
        before: &[Seen],
        faults: &mut Faults,
    ) -> Result<(), Memory> {
        judge_release::<T>(self.binds, turn, event, before, faults)
    }
}

/// An evaluator of one statement that a later REST shows.
#[derive(Drop)]
pub struct OnRests<T> {
    binds: bool,
    of: PhantomData<T>,
}

impl<T: RestStatement> Evaluator for OnRests<T> {
    ghost use Rattle.std.specs.Prelude.{◌≡◌};
    ghost use Rattle.mq_rules.specs.Rules.{same_rule, binds};

    ghost chosen = { λ r. same_rule r T.judged };

    ghost is_for = { λ t tested. t.binds ≡ binds T.judged tested };

    fn of(tested: Tested) -> Self {
        OnRests {
            binds: T::rule().is_judged(tested),
            of: PhantomData,
        }
    }

    #[inline(always)]
    fn judge_at(
        &self,
        alloc: Global,
        turn: Turn,
        event: &Seen,
        before: &[Seen],
        faults: &mut Faults,
    ) -> Result<(), Memory> {
        judge_rest::<T>(self.binds, alloc, turn, event, before, faults)
    }
}

/// An evaluator of the statements of the first, and then of those of the second.
#[derive(Drop)]
pub struct Then<A, B> {
    first: A,
    second: B,
}

impl<A: Evaluator, B: Evaluator> Evaluator for Then<A, B> {
    ghost use Rattle.std.specs.Prelude.{◌||◌};

    ghost chosen = { λ r. A.chosen r || B.chosen r };

    ghost is_for = { λ t tested. A.is_for t.first tested × B.is_for t.second tested };

    fn of(tested: Tested) -> Self {
        Then {
            first: A::of(tested),
            second: B::of(tested),
        }
    }

    #[inline(always)]
    #[tactic(auto, using(mq_rules::proofs::GainLaws::gains_either, mq_rules::proofs::GainLaws::within_either_first, mq_rules::proofs::GainLaws::within_either_second))]
    fn judge_at(
        &self,
        alloc: Global,
        turn: Turn,
        event: &Seen,
        before: &[Seen],
        faults: &mut Faults,
    ) -> Result<(), Memory> {
        self.first.judge_at(alloc, turn, event, before, faults)?;
        self.second.judge_at(alloc, turn, event, before, faults)
    }
}
