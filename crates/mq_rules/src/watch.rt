//! Watchers: each takes in the events of a log one by one, and adds the faults of its statements as
//! they show.
ghost use Rattle.std.specs.Prelude.{◌≡◌, ◌∷◌, ◌||◌, ◌+◌, ◌≤◌, ℕ, Bool, List, Option, length, OnOk, OnErr};
ghost use Rattle.mq_rules.specs.declared.role.Tested.{Tested};
ghost use Rattle.mq_rules.specs.declared.fate.Fate.{Fate};
ghost use Rattle.mq_rules.specs.declared.rule.Rule.{Rule};
ghost use Rattle.mq_rules.specs.declared.note.Seen.{Seen};
ghost use Rattle.mq_rules.specs.Connections.{latest_fate};
ghost use Rattle.mq_rules.specs.Notes.{note_of_bare};
ghost use Rattle.mq_rules.specs.Under.{seen, Follows};
ghost use Rattle.mq_rules.specs.Growing.{Gains, GainsWithin};
ghost use Rattle.mq_rules.specs.Weights.{in_word};

use crate::bare::Bare;
use crate::faults::{Faults, Memory};
use crate::note::Note;
use mq_log::Place3;

/// A watcher of some statements.
///
/// Its law: a state that agrees with some events agrees, after a step, with these and the next one,
/// and the faults grow by exactly the pairs of its statements that turn out to fail with that
/// event, each decided there.
pub trait Watch {
    /// The state is one that these events, the newest first, lead to, where their latest connection
    /// is taken to have this fate.
    ghost agrees: { Self → Tested → Option Fate → List Seen → Type 0 };
    /// It takes in this event after these, where their latest connection is taken to have this
    /// fate.
    ghost takes: { Tested → Option Fate → Seen → List Seen → Type 0 };
    /// The pairs of a position and a statement that it adds with an event.
    ghost adds: { Tested → Seen → List Seen → ℕ → Rule → Bool };
    /// How much it keeps: the sum of the lengths of all its collections.
    ghost weighs: { Self → ℕ };
    /// Its weight after these events is at most this.
    ghost bound: { Tested → Option Fate → List Seen → ℕ };

    /// Takes in the next event.
    ///
    /// # Errors
    ///
    /// `Memory` if there is no memory for what it keeps, or for a fault. Then it may have added
    /// some of the faults that the event shows, and its state is of no use.
    fn step(&mut self, at: Place3, note: &Note, faults: &mut Faults) -> Result<(), Memory>
        ensures agrees { OnOk result ((tested : Tested) (taken : Option Fate) (past : List Seen) → Follows tested (seen at note.now) past → takes tested taken (seen at note.now) past → agrees self.old tested taken past → agrees self.new tested (latest_fate tested.role (seen at note.now ∷ past)) (seen at note.now ∷ past)) }
        ensures grows { OnOk result ((tested : Tested) (taken : Option Fate) (past : List Seen) → Follows tested (seen at note.now) past → takes tested taken (seen at note.now) past → agrees self.old tested taken past → Gains (adds tested (seen at note.now) past) tested (seen at note.now ∷ past) (length past + 1) faults.old faults.new) }
        ensures memory { OnErr result ((tested : Tested) (taken : Option Fate) (past : List Seen) → Follows tested (seen at note.now) past → takes tested taken (seen at note.now) past → agrees self.old tested taken past → GainsWithin (adds tested (seen at note.now) past) tested (seen at note.now ∷ past) (length past + 1) faults.old faults.new) };

    /// The sum of the lengths of all collections that it keeps; the greatest number if that is
    /// less.
    fn weight(&self) -> usize
        ensures exact { result ≡ in_word (weighs self.now) }
        ensures bounded { (tested : Tested) (taken : Option Fate) (past : List Seen) → agrees self.now tested taken past → result ≤ bound tested taken past };
}

// Takes in a bare packet by a note that is made of it, in a call of its own: the note lies in memory,
// which costs nothing where it isn't called.
#[inline(never)]
fn step_noted<W: Watch>(
    watcher: &mut W,
    at: Place3,
    bare: Bare<'_>,
    faults: &mut Faults,
) -> Result<(), Memory>
    ensures agrees { OnOk result ((tested : Tested) (taken : Option Fate) (past : List Seen) → Follows tested (seen at (note_of_bare bare.entry)) past → W.takes tested taken (seen at (note_of_bare bare.entry)) past → W.agrees watcher.old tested taken past → W.agrees watcher.new tested (latest_fate tested.role (seen at (note_of_bare bare.entry) ∷ past)) (seen at (note_of_bare bare.entry) ∷ past)) }
    ensures grows { OnOk result ((tested : Tested) (taken : Option Fate) (past : List Seen) → Follows tested (seen at (note_of_bare bare.entry)) past → W.takes tested taken (seen at (note_of_bare bare.entry)) past → W.agrees watcher.old tested taken past → Gains (W.adds tested (seen at (note_of_bare bare.entry)) past) tested (seen at (note_of_bare bare.entry) ∷ past) (length past + 1) faults.old faults.new) }
    ensures memory { OnErr result ((tested : Tested) (taken : Option Fate) (past : List Seen) → Follows tested (seen at (note_of_bare bare.entry)) past → W.takes tested taken (seen at (note_of_bare bare.entry)) past → W.agrees watcher.old tested taken past → GainsWithin (W.adds tested (seen at (note_of_bare bare.entry)) past) tested (seen at (note_of_bare bare.entry) ∷ past) (length past + 1) faults.old faults.new) }
{
    let note = bare.note();
    watcher.step(at, &note, faults)?;
    Ok(())
}

/// Takes in a bare packet by a note that is made of it. What makes the note is a call of its own,
/// and what is handed to that call lies in memory: in this function's, which is inlined, and not in
/// its caller's. So nothing is written there but on the way to the call.
///
/// # Errors
///
/// As in `step`.
#[inline(always)]
pub fn step_apart<W: Watch>(
    watcher: &mut W,
    at: Place3,
    bare: Bare<'_>,
    faults: &mut Faults,
) -> Result<(), Memory>
    ensures agrees { OnOk result ((tested : Tested) (taken : Option Fate) (past : List Seen) → Follows tested (seen at (note_of_bare bare.entry)) past → W.takes tested taken (seen at (note_of_bare bare.entry)) past → W.agrees watcher.old tested taken past → W.agrees watcher.new tested (latest_fate tested.role (seen at (note_of_bare bare.entry) ∷ past)) (seen at (note_of_bare bare.entry) ∷ past)) }
    ensures grows { OnOk result ((tested : Tested) (taken : Option Fate) (past : List Seen) → Follows tested (seen at (note_of_bare bare.entry)) past → W.takes tested taken (seen at (note_of_bare bare.entry)) past → W.agrees watcher.old tested taken past → Gains (W.adds tested (seen at (note_of_bare bare.entry)) past) tested (seen at (note_of_bare bare.entry) ∷ past) (length past + 1) faults.old faults.new) }
    ensures memory { OnErr result ((tested : Tested) (taken : Option Fate) (past : List Seen) → Follows tested (seen at (note_of_bare bare.entry)) past → W.takes tested taken (seen at (note_of_bare bare.entry)) past → W.agrees watcher.old tested taken past → GainsWithin (W.adds tested (seen at (note_of_bare bare.entry)) past) tested (seen at (note_of_bare bare.entry) ∷ past) (length past + 1) faults.old faults.new) }
{
    step_noted(watcher, at, bare, faults)?;
    Ok(())
}

/// A watcher that can take in a bare packet by its numbers, as it does by its note.
pub trait Brisk: Watch {
    /// Takes in the next event, a bare packet.
    ///
    /// # Errors
    ///
    /// As in `step`.
    fn step_bare(&mut self, at: Place3, bare: Bare<'_>, faults: &mut Faults) -> Result<(), Memory>
        ensures agrees { OnOk result ((tested : Tested) (taken : Option Fate) (past : List Seen) → Follows tested (seen at (note_of_bare bare.entry)) past → Self.takes tested taken (seen at (note_of_bare bare.entry)) past → Self.agrees self.old tested taken past → Self.agrees self.new tested (latest_fate tested.role (seen at (note_of_bare bare.entry) ∷ past)) (seen at (note_of_bare bare.entry) ∷ past)) }
        ensures grows { OnOk result ((tested : Tested) (taken : Option Fate) (past : List Seen) → Follows tested (seen at (note_of_bare bare.entry)) past → Self.takes tested taken (seen at (note_of_bare bare.entry)) past → Self.agrees self.old tested taken past → Gains (Self.adds tested (seen at (note_of_bare bare.entry)) past) tested (seen at (note_of_bare bare.entry) ∷ past) (length past + 1) faults.old faults.new) }
        ensures memory { OnErr result ((tested : Tested) (taken : Option Fate) (past : List Seen) → Follows tested (seen at (note_of_bare bare.entry)) past → Self.takes tested taken (seen at (note_of_bare bare.entry)) past → Self.agrees self.old tested taken past → GainsWithin (Self.adds tested (seen at (note_of_bare bare.entry)) past) tested (seen at (note_of_bare bare.entry) ∷ past) (length past + 1) faults.old faults.new) };
}

/// Two watchers of different statements.
#[derive(Drop)]
pub struct Both<A, B> {
    /// The first.
    pub a: A,
    /// The second.
    pub b: B,
}

impl<A, B> Both<A, B> {
    /// The two as one.
    pub fn new(a: A, b: B) -> Self
        ensures { result ≡ record { a = a; b = b } }
    {
        Both { a, b }
    }
}

impl<A: Watch, B: Watch> Watch for Both<A, B> {
    ghost agrees = { λ s tested taken past. A.agrees s.a tested taken past × B.agrees s.b tested taken past };

    ghost takes = { λ tested taken e past. A.takes tested taken e past × B.takes tested taken e past };

    ghost adds = { λ tested e past k r. A.adds tested e past k r || B.adds tested e past k r };

    ghost weighs = { λ s. A.weighs s.a + B.weighs s.b };

    ghost bound = { λ tested taken past. A.bound tested taken past + B.bound tested taken past };

    #[inline(always)]
    #[tactic(auto, using(crate::proofs::GainLaws::gains_then, crate::proofs::GainLaws::within_first, crate::proofs::GainLaws::within_second))]
    fn step(&mut self, at: Place3, note: &Note, faults: &mut Faults) -> Result<(), Memory> {
        self.a.step(at, note, faults)?;
        self.b.step(at, note, faults)?;
        Ok(())
    }

    fn weight(&self) -> usize {
        self.a.weight().saturating_add(self.b.weight())
    }
}

impl<A: Brisk, B: Brisk> Brisk for Both<A, B> {
    #[inline(always)]
    #[tactic(auto, using(crate::proofs::GainLaws::gains_then, crate::proofs::GainLaws::within_first, crate::proofs::GainLaws::within_second))]
    fn step_bare(&mut self, at: Place3, bare: Bare<'_>, faults: &mut Faults) -> Result<(), Memory> {
        match self.a.step_bare(at, bare, faults) {
            Ok(()) => self.b.step_bare(at, bare, faults),
            Err(Memory) => Err(Memory),
        }
    }
}
