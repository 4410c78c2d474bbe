//! A watcher that judges all statements, and keeps the faults that it finds.
ghost use Rattle.std.specs.Prelude.{◌≡◌, ◌∷◌, [], ℕ, false, true, refl, List, Option, IfOk};
ghost use Rattle.std.specs.FinMap as map;
ghost use Rattle.mq_rules.specs.declared.role.Tested.{Tested as TheTested};
ghost use Rattle.mq_rules.specs.declared.fate.Fate.TheVariants.{Void};
ghost use Rattle.mq_rules.specs.declared.note.Seen.{Seen};
ghost use Rattle.mq_rules.specs.Connections.{IsOnConnection};
ghost use Rattle.mq_rules.specs.Faults.{listed_faults};
ghost use Rattle.mq_choice.specs.Choices.{AreAllFaults, AreChosenFaults, in_choice, wants_further};
ghost use Rattle.mq_trail.specs.Rejudging.{HasFound};

use crate::comparing::same_faults;
use crate::following::Follower;
use mq_choice::{Choice, chosen_of};
use mq_log::Place3;
use mq_report::Verdict;
use mq_rules::{Bare, Brisk, Faults, Memory, Note, Tested, Watch};
use mq_watchers::Watchers;
use std::alloc::Global;

/// Judges a log again, and finds its faults itself: it adds none to those that a step is given.
pub struct Rejudging {
    watchers: Watchers,
    /// The faults of the events so far.
    pub faults: Faults,
    /// How many events there were.
    pub events: u32,
}

// A function of its own, so that whoever drops it needn't spell out all that is freed.
impl Drop for Rejudging {
    #[inline(never)]
    fn drop(self) {
        let Rejudging {
            watchers: _watchers,
            faults: _faults,
            events: _events,
        } = self;
    }
}

impl Rejudging {
    /// Judges this end, before any event.
    pub fn new(alloc: Global, tested: Tested) -> Self
        ensures { ⟦<Rejudging as Watch>⟧.agrees result tested (Some Void) [] }
    {
        Rejudging {
            watchers: Watchers::new(alloc, tested),
            faults: Faults::new(alloc),
            events: 0,
        }
    }

    /// Whether it has found this verdict: the same faults of the chosen statements, among as many
    /// events.
    ///
    /// # Errors
    ///
    /// `Memory` if there is no memory for the faults of the statements that are listed.
    pub fn finds(&self, alloc: Global, choice: Choice, verdict: &Verdict) -> Result<bool, Memory>
        ensures same { IfOk result (λ finds. finds ≡ true → (self.now.events ≡ verdict.now.events) × ((tested : TheTested) (past : List Seen) → tested.further ≡ wants_further (in_choice choice) → AreAllFaults tested past self.now.faults → AreChosenFaults (in_choice choice) tested past verdict.now.faults)) }
        ensures other { IfOk result (λ finds. finds ≡ false → (tested : TheTested) (past : List Seen) → tested.further ≡ wants_further (in_choice choice) → AreAllFaults tested past self.now.faults → self.now.events ≡ verdict.now.events → ¬ (map.entries verdict.now.faults ≡ listed_faults (in_choice choice) tested past)) }
    {
        if self.events != verdict.events {
            return Ok(false);
        }
        has_these(alloc, &self.faults, choice, &verdict.faults)
    }
}

// Whether these are the faults of the chosen statements among all of some events.
//
// Errors: `Memory` if there is no memory for those of the statements that are listed.
fn has_these(alloc: Global, all: &Faults, choice: Choice, others: &Faults) -> Result<bool, Memory>
    ensures same { IfOk result (λ same. same ≡ true → (tested : TheTested) (past : List Seen) → tested.further ≡ wants_further (in_choice choice) → AreAllFaults tested past all.now → AreChosenFaults (in_choice choice) tested past others.now) }
    ensures other { IfOk result (λ same. same ≡ false → (tested : TheTested) (past : List Seen) → tested.further ≡ wants_further (in_choice choice) → AreAllFaults tested past all.now → ¬ (map.entries others.now ≡ listed_faults (in_choice choice) tested past)) }
{
    if !choice.is_listed() {
        return Ok(same_faults(all, others));
    }
    let kept = chosen_of(alloc, all, choice)?;
    Ok(same_faults(&kept, others))
}

impl Watch for Rejudging {
    ghost agrees = { λ s tested taken past. ⟦<Watchers as Watch>⟧.agrees s.watchers tested taken past × HasFound s.events s.faults tested past };

    ghost takes = { λ tested taken e past. IsOnConnection e past };

    ghost adds = { λ tested e past k r. false };

    ghost weighs = { λ s. 0 };

    ghost bound = { λ tested taken past. 0 };

    fn step(&mut self, at: Place3, note: &Note, _: &mut Faults) -> Result<(), Memory> {
        self.watchers.step(at, note, &mut self.faults)?;
        self.events = at.position;
        Ok(())
    }

    // It isn't weighed: a log is read a second time only if it has faults.
    fn weight(&self) -> usize {
        0
    }
}

impl Brisk for Rejudging {
    #[inline(always)]
    fn step_bare(&mut self, place: Place3, bare: Bare<'_>, _: &mut Faults) -> Result<(), Memory> {
        self.watchers.step_bare(place, bare, &mut self.faults)?;
        self.events = place.position;
        Ok(())
    }
}

impl Follower for Rejudging {
    ghost takes_any = { λ tested taken e past on. on };
}
