//! A watcher that explains faults, up to the event with which the last of them was decided.
ghost use Rattle.std.specs.Prelude.{◌≡◌, ◌≤◌, [], false, List, Option, Some};
ghost use Rattle.std.specs.List.{list_any};
ghost use Rattle.std.specs.FinMap as map;
ghost use Rattle.mq_rules.specs.declared.role.Tested.{Tested as TheTested};
ghost use Rattle.mq_rules.specs.declared.fate.Fate.{Fate};
ghost use Rattle.mq_rules.specs.declared.fate.Fate.TheVariants.{Void};
ghost use Rattle.mq_rules.specs.Connections.{IsOnConnection};
ghost use Rattle.mq_trail.specs.Until.{HasSeenUntil, is_decided_after};

use crate::following::Follower;
use crate::reviewing::{Reviewing, Wanted};
use mq_fates::Early;
use mq_log::Place3;
use mq_rules::{Bare, Both, Brisk, Faults, Memory, Note, Watch, step_apart};
use std::marker::PhantomData;

/// A watcher that takes in any event that may follow the events before it, and adds no faults.
pub trait Explainer: Watch {
    ghost use Rattle.std.specs.Prelude.{◌≡◌, ℕ, false, List, Option};
    ghost use Rattle.mq_rules.specs.declared.role.Tested.{Tested};
    ghost use Rattle.mq_rules.specs.declared.rule.Rule.{Rule};
    ghost use Rattle.mq_rules.specs.declared.fate.Fate.{Fate};
    ghost use Rattle.mq_rules.specs.declared.note.Seen.{Seen};
    ghost use Rattle.mq_rules.specs.Connections.{IsOnConnection};

    /// It takes in an event that comes on an open connection, or needs none.
    ghost takes_any: { (tested : Tested) (taken : Option Fate) (e : Seen) (past : List Seen) → IsOnConnection e past → Self.takes tested taken e past };

    /// It adds no faults.
    ghost adds_none: { (tested : Tested) (e : Seen) (past : List Seen) (k : ℕ) (r : Rule) → Self.adds tested e past k r ≡ false };
}

impl<A: Explainer, B: Explainer> Explainer for Both<A, B> {
    ghost use Rattle.std.specs.Prelude.{◌||◌};

    ghost takes_any = { λ tested taken e past on. (A.takes_any tested taken e past on, B.takes_any tested taken e past on) };

    ghost adds_none = { λ tested e past k r i. A.adds_none tested e past k r i || B.adds_none tested e past k r i };
}

impl<K: Wanted> Explainer for Early<Reviewing<K>> {
    ghost use Rattle.std.specs.Prelude.{refl};

    ghost takes_any = { λ tested taken e past on. tt };

    ghost adds_none = { λ tested e past k r. refl };
}

/// Drives a watcher that explains faults up to the event with which the last of them was decided.
/// What comes after that can't explain any.
///
/// No code uses `K`. It is there for the proofs: by it `agrees` can say which faults are explained.
#[derive(Drop)]
pub struct Until<W, K> {
    /// The watcher.
    pub watcher: W,
    /// The position of the event with which the last of the faults was decided.
    last: u32,
    wanted: PhantomData<K>,
}

impl<W: Explainer, K: Wanted> Until<W, K> {
    /// Drives this watcher, which is before any event, for these faults.
    pub fn new(watcher: W, faults: &Faults) -> Self
        ensures { (tested : TheTested) → K.wanted ≡ faults.now → W.agrees watcher tested (Some Void) [] → ⟦<Until<W, K> as Watch>⟧.agrees result tested (Some Void) [] }
    {
        Until {
            watcher,
            last: last_decided(faults),
            wanted: PhantomData,
        }
    }
}

// The position with which the last of these faults was decided; 0 if there are none.
fn last_decided(faults: &Faults) -> u32
    ensures { list_any (is_decided_after result) (map.entries faults.now) ≡ false }
{
    let mut last = 0;
    for (_key, fault) in faults.iter() {
        last = later_of(last, fault.decided);
    }
    last
}

// The later one of two positions.
fn later_of(a: u32, b: u32) -> u32
    ensures first { a ≤ result }
    ensures second { b ≤ result }
{
    if a < b { b } else { a }
}

impl<W: Explainer, K: Wanted> Watch for Until<W, K> {
    ghost agrees = { λ s tested taken past. HasSeenUntil W.agrees K.wanted tested s.last s.watcher past };

    ghost takes = { λ tested taken e past. IsOnConnection e past };

    ghost adds = { λ tested e past k r. false };

    ghost weighs = { λ s. 0 };

    ghost bound = { λ tested taken past. 0 };

    fn step(&mut self, at: Place3, note: &Note, faults: &mut Faults) -> Result<(), Memory> {
        if at.position > self.last {
            return Ok(());
        }
        self.watcher.step(at, note, faults)?;
        Ok(())
    }

    // It isn't weighed: a log is read a second time only if it has faults.
    fn weight(&self) -> usize {
        0
    }
}

impl<W: Explainer, K: Wanted> Brisk for Until<W, K> {
    #[inline(always)]
    fn step_bare(
        &mut self,
        place: Place3,
        bare: Bare<'_>,
        faults: &mut Faults,
    ) -> Result<(), Memory> {
        if place.position > self.last {
            return Ok(());
        }
        step_apart(&mut self.watcher, place, bare, faults)?;
        Ok(())
    }
}

impl<W: Explainer, K: Wanted> Follower for Until<W, K> {
    ghost takes_any = { λ tested taken e past on. on };
}
