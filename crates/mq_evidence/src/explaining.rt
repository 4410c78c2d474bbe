//! Explaining the faults of the statements on sessions, event by event.
ghost use Rattle.std.specs.Prelude.{◌≡◌, ◌∷◌, ◌+◌, ℕ, [], List, length, Some, None, true, false, OnOk};
ghost use Rattle.std.specs.Option.{option_or};
ghost use Rattle.std.specs.FinMap as map;
ghost use Rattle.mq_rules.specs.declared.role.Tested.{Tested as TheTested};
ghost use Rattle.mq_rules.specs.declared.fate.Fate.{Fate as TheFate};
ghost use Rattle.mq_rules.specs.declared.fate.Fate.TheVariants.{Void};
ghost use Rattle.mq_rules.specs.declared.rule.Rule.{Rule as TheRule};
ghost use Rattle.mq_rules.specs.declared.note.Seen.{Seen};
ghost use Rattle.mq_rules.specs.Notes.{is_open};
ghost use Rattle.mq_rules.specs.Moments.{newest};
ghost use Rattle.mq_rules.specs.Under.{seen, IsUnder, fate_before};
ghost use Rattle.mq_evidence.specs.Evidence.{found, reason};
ghost use Rattle.mq_evidence.specs.Findings.{found_at};
ghost use Rattle.mq_evidence.specs.Trailing.{IsTrail, IsExplaining, IsNext, explained_at, finds};

use crate::findings::Findings;
use crate::trail::SessionTrail;
use crate::wanted::{Need, any_needs, next_after};
use mq_log::Place3;
use mq_rules::{Fate, Faults, Memory, Note, Tested};
use std::alloc::Global;

/// Finds what the faults of the statements on sessions conflict with, as their events come.
#[derive(Drop)]
pub struct Explaining {
    wanted: Faults,
    /// Before this position there is no fault that is still to be explained.
    next: u32,
    trail: SessionTrail,
    findings: Findings,
}

impl Explaining {
    /// Before any event: these faults of this tested end will be explained.
    pub fn new(alloc: Global, tested: Tested, wanted: Faults) -> Self
        ensures wanted { result.wanted ≡ wanted }
        ensures agrees { IsExplaining result tested (Some Void) [] }
    {
        let keeps_standing = any_needs(Need::Standing, &wanted);
        let keeps_asked = any_needs(Need::Asked, &wanted);
        Explaining {
            wanted,
            next: 0,
            trail: SessionTrail::new(alloc, tested, keeps_standing, keeps_asked),
            findings: Findings::new(alloc),
        }
    }

    /// Takes in the next event, of a connection that has this fate.
    ///
    /// # Errors
    ///
    /// `Memory` if there is no memory for what it keeps. Its state is then of no use.
    pub fn take(&mut self, at: Place3, fate: Fate, note: &Note) -> Result<(), Memory>
        ensures wanted { OnOk result (self.new.wanted ≡ self.old.wanted) }
        ensures agrees { OnOk result ((tested : TheTested) (decided : ℕ) (past : List Seen) → IsUnder tested fate decided (seen at note.now) past → IsExplaining self.old tested (fate_before tested fate (seen at note.now) past) past → IsExplaining self.new tested (Some fate) (seen at note.now ∷ past)) }
    {
        self.explain(at, note)?;
        self.trail.take(at, fate, note)?;
        Ok(())
    }

    // Explains the faults of the next event. At an OPEN nothing is at fault.
    #[inline(always)]
    fn explain(&mut self, at: Place3, note: &Note) -> Result<(), Memory>
        ensures same { OnOk result ((self.new.wanted ≡ self.old.wanted) × (self.new.trail ≡ self.old.trail)) }
        ensures next { OnOk result ((count : ℕ) → at.position ≡ count + 1 → IsNext self.old.wanted self.old.next count → IsNext self.new.wanted self.new.next (count + 1)) }
        ensures opened { OnOk result (is_open note.now ≡ true → (k : ℕ) (r : TheRule) → found_at self.new.findings k r ≡ found_at self.old.findings k r) }
        ensures closed { OnOk result (is_open note.now ≡ false → (tested : TheTested) (fate : TheFate) (past : List Seen) → at.position ≡ length past + 1 → IsNext self.old.wanted self.old.next (length past) → IsTrail self.old.trail tested (Some fate) past
            → (k : ℕ) (r : TheRule)
            → found_at self.new.findings k r ≡ option_or (explained_at (finds self.old.trail) (map.entries self.old.wanted) at.position k r (found (reason tested.role r) (Some fate) None (newest (seen at note.now) past))) (found_at self.old.findings k r)) }
    {
        if at.position < self.next {
            return Ok(());
        }
        self.explain_due(at, note)
    }

    // The same, where a fault may be.
    #[inline(never)]
    fn explain_due(&mut self, at: Place3, note: &Note) -> Result<(), Memory>
        ensures same { OnOk result ((self.new.wanted ≡ self.old.wanted) × (self.new.trail ≡ self.old.trail)) }
        ensures next { OnOk result ((count : ℕ) → at.position ≡ count + 1 → IsNext self.old.wanted self.old.next count → IsNext self.new.wanted self.new.next (count + 1)) }
        ensures opened { OnOk result (is_open note.now ≡ true → (k : ℕ) (r : TheRule) → found_at self.new.findings k r ≡ found_at self.old.findings k r) }
        ensures closed { OnOk result (is_open note.now ≡ false → (tested : TheTested) (fate : TheFate) (past : List Seen) → at.position ≡ length past + 1 → IsTrail self.old.trail tested (Some fate) past → (k : ℕ) (r : TheRule)
            → found_at self.new.findings k r ≡ option_or (explained_at (finds self.old.trail) (map.entries self.old.wanted) at.position k r (found (reason tested.role r) (Some fate) None (newest (seen at note.now) past))) (found_at self.old.findings k r)) }
    {
        if note.is_open() {
            return Ok(());
        }
        self.trail
            .explain(&self.wanted, at, note, &mut self.findings)?;
        self.next = next_after(&self.wanted, at.position);
        Ok(())
    }

    /// The faults that it explains.
    pub fn wanted(&self) -> &Faults
        ensures { result.now ≡ self.now.wanted }
    {
        &self.wanted
    }

    /// What it has found.
    pub fn findings(&self) -> &Findings
        ensures { result.now ≡ self.now.findings }
    {
        &self.findings
    }
}
