//! Watchers that take in an event together with the fate of its connection.
ghost use Rattle.std.specs.Prelude.{◌≡◌, ◌∷◌, ◌||◌, ◌&&◌, ◌+◌, ◌≤◌, ℕ, Bool, List, Option, Some, OnOk, OnErr};
ghost use Rattle.mq_rules.specs.declared.role.Tested.{Tested};
ghost use Rattle.mq_rules.specs.declared.fate.Fate.{Fate as TheFate};
ghost use Rattle.mq_rules.specs.declared.rule.Rule.{Rule};
ghost use Rattle.mq_rules.specs.declared.note.Seen.{Seen};
ghost use Rattle.mq_rules.specs.Under.{seen, IsUnder, fate_before, turns_with};
ghost use Rattle.mq_rules.specs.Growing.{Gains, GainsWithin};
ghost use Rattle.mq_rules.specs.Notes.{note_in};
ghost use Rattle.mq_rules.specs.Weights.{in_word};

use crate::taken::Taken;
use mq_log::Place3;
use mq_rules::{Both, Fate, Faults, Memory, NoteRef, Noted};

/// A watcher of statements on sessions, which takes in each event with the fate of its connection.
///
/// Its law: a state that agrees with some events, their latest connection taken to have the fate,
/// agrees afterwards with these and the event under it, and the faults grow by exactly the pairs of
/// its statements that turn out to fail there under that fate.
pub trait Fated {
    /// The state is one that these events, the newest first, lead to, where their latest connection
    /// is taken to have this fate.
    ghost agrees: { Self → Tested → Option TheFate → List Seen → Type 0 };
    /// The statements that it judges.
    ghost judges: { Rule → Bool };
    /// How much it keeps: the sum of the lengths of all its collections.
    ghost weighs: { Self → ℕ };
    /// Its weight after these events is at most this.
    ghost bound: { Tested → Option TheFate → List Seen → ℕ };

    /// Takes in an event of a connection that has this fate. What it shows is decided at this
    /// position.
    ///
    /// # Errors
    ///
    /// `Memory` if there is no memory for what it keeps, or for a fault. Then it may have added
    /// some of the faults, and its state is of no use.
    fn fated<E: Taken>(
        &mut self,
        at: Place3,
        decided: u32,
        fate: Fate,
        event: &E,
        faults: &mut Faults,
    ) -> Result<(), Memory>
        ensures agrees { OnOk result ((tested : Tested) (past : List Seen) → IsUnder tested fate decided (seen at (E.note event.now)) past → agrees self.old tested (fate_before tested fate (seen at (E.note event.now)) past) past → agrees self.new tested (Some fate) (seen at (E.note event.now) ∷ past)) }
        ensures grows { OnOk result ((tested : Tested) (past : List Seen) → IsUnder tested fate decided (seen at (E.note event.now)) past → agrees self.old tested (fate_before tested fate (seen at (E.note event.now)) past) past → Gains (λ k r. judges r && turns_with tested fate (seen at (E.note event.now)) past k r) tested (seen at (E.note event.now) ∷ past) decided faults.old faults.new) }
        ensures memory { OnErr result ((tested : Tested) (past : List Seen) → IsUnder tested fate decided (seen at (E.note event.now)) past → agrees self.old tested (fate_before tested fate (seen at (E.note event.now)) past) past → GainsWithin (λ k r. judges r && turns_with tested fate (seen at (E.note event.now)) past k r) tested (seen at (E.note event.now) ∷ past) decided faults.old faults.new) };

    /// The sum of the lengths of all collections that it keeps; the greatest number if that is
    /// less.
    fn weight(&self) -> usize
        ensures exact { result ≡ in_word (weighs self.now) }
        ensures bounded { (tested : Tested) (taken : Option TheFate) (past : List Seen) → agrees self.now tested taken past → result ≤ bound tested taken past };
}

// Gives an event to a watcher in a call of its own.
#[inline(never)]
fn call_fated<W: Fated, E: Taken>(
    watcher: &mut W,
    at: Place3,
    decided: u32,
    fate: Fate,
    event: &E,
    faults: &mut Faults,
) -> Result<(), Memory>
    ensures agrees { OnOk result ((tested : Tested) (past : List Seen) → IsUnder tested fate decided (seen at (E.note event.now)) past → W.agrees watcher.old tested (fate_before tested fate (seen at (E.note event.now)) past) past → W.agrees watcher.new tested (Some fate) (seen at (E.note event.now) ∷ past)) }
    ensures grows { OnOk result ((tested : Tested) (past : List Seen) → IsUnder tested fate decided (seen at (E.note event.now)) past → W.agrees watcher.old tested (fate_before tested fate (seen at (E.note event.now)) past) past → Gains (λ k r. W.judges r && turns_with tested fate (seen at (E.note event.now)) past k r) tested (seen at (E.note event.now) ∷ past) decided faults.old faults.new) }
    ensures memory { OnErr result ((tested : Tested) (past : List Seen) → IsUnder tested fate decided (seen at (E.note event.now)) past → W.agrees watcher.old tested (fate_before tested fate (seen at (E.note event.now)) past) past → GainsWithin (λ k r. W.judges r && turns_with tested fate (seen at (E.note event.now)) past k r) tested (seen at (E.note event.now) ∷ past) decided faults.old faults.new) }
{
    watcher.fated(at, decided, fate, event, faults)
}

/// Gives an event to a watcher in a call of its own, for one that few events concern: one for those
/// of which a note was made, and one for bare packets, whose numbers lie in memory on the way to it
/// alone.
///
/// # Errors
///
/// As in `fated`.
#[inline(always)]
pub fn fated_apart<W: Fated>(
    watcher: &mut W,
    at: Place3,
    decided: u32,
    fate: Fate,
    event: NoteRef<'_>,
    faults: &mut Faults,
) -> Result<(), Memory>
    ensures agrees { OnOk result ((tested : Tested) (past : List Seen) → IsUnder tested fate decided (seen at (note_in event.entry)) past → W.agrees watcher.old tested (fate_before tested fate (seen at (note_in event.entry)) past) past → W.agrees watcher.new tested (Some fate) (seen at (note_in event.entry) ∷ past)) }
    ensures grows { OnOk result ((tested : Tested) (past : List Seen) → IsUnder tested fate decided (seen at (note_in event.entry)) past → W.agrees watcher.old tested (fate_before tested fate (seen at (note_in event.entry)) past) past → Gains (λ k r. W.judges r && turns_with tested fate (seen at (note_in event.entry)) past k r) tested (seen at (note_in event.entry) ∷ past) decided faults.old faults.new) }
    ensures memory { OnErr result ((tested : Tested) (past : List Seen) → IsUnder tested fate decided (seen at (note_in event.entry)) past → W.agrees watcher.old tested (fate_before tested fate (seen at (note_in event.entry)) past) past → GainsWithin (λ k r. W.judges r && turns_with tested fate (seen at (note_in event.entry)) past k r) tested (seen at (note_in event.entry) ∷ past) decided faults.old faults.new) }
{
    match event {
        NoteRef::Kept(note) => call_fated(watcher, at, decided, fate, note, faults),
        NoteRef::Bare(bare) => call_fated(watcher, at, decided, fate, &bare, faults),
    }
}

impl<A: Fated, B: Fated> Fated for Both<A, B> {
    ghost agrees = { λ s tested taken past. A.agrees s.a tested taken past × B.agrees s.b tested taken past };

    ghost judges = { λ r. A.judges r || B.judges r };

    ghost weighs = { λ s. A.weighs s.a + B.weighs s.b };

    ghost bound = { λ tested taken past. A.bound tested taken past + B.bound tested taken past };

    #[inline(always)]
    #[tactic(auto, using(mq_rules::proofs::GainLaws::gains_either, mq_rules::proofs::GainLaws::within_either_first, mq_rules::proofs::GainLaws::within_either_second))]
    fn fated<E: Taken>(
        &mut self,
        at: Place3,
        decided: u32,
        fate: Fate,
        event: &E,
        faults: &mut Faults,
    ) -> Result<(), Memory> {
        match self.a.fated(at, decided, fate, event, faults) {
            Ok(()) => self.b.fated(at, decided, fate, event, faults),
            Err(Memory) => Err(Memory),
        }
    }

    fn weight(&self) -> usize {
        self.a.weight().saturating_add(self.b.weight())
    }
}
