//! Explaining the faults of the statements that are judged by the past of a connection, event by
//! event.
ghost use Rattle.std.specs.Prelude.{◌≡◌, ◌∷◌, ◌+◌, ℕ, [], List, length, None, OnOk, option_map};
ghost use Rattle.std.specs.Option.{option_or};
ghost use Rattle.std.specs.FinMap as map;
ghost use Rattle.mq_rules.specs.declared.role.Tested.{Tested as TheTested};
ghost use Rattle.mq_rules.specs.declared.rule.Rule.{Rule as TheRule};
ghost use Rattle.mq_rules.specs.declared.note.Seen.{Seen};
ghost use Rattle.mq_rules.specs.Under.{seen};
ghost use Rattle.mq_rules.specs.Connections.{connection};
ghost use Rattle.mq_rules.specs.Moments.{newest, position};
ghost use Rattle.mq_evidence.specs.Evidence.{earliest, found, is_connack, reason};
ghost use Rattle.mq_evidence.specs.Findings.{found_at};
ghost use Rattle.mq_evidence.specs.Trailing.{IsNext, explained_at};
ghost use Rattle.mq_evidence.specs.ConnectionTrails.{IsConnectionExplaining, IsConnectionTrail, is_on_connection};

use crate::connection_trail::ConnectionTrail;
use crate::findings::Findings;
use crate::wanted::next_after;
use mq_log::Place3;
use mq_rules::{Faults, Memory, Note, Tested};
use std::alloc::Global;

/// Finds what the faults of these statements conflict with, as their events come.
#[derive(Drop)]
pub struct ConnectionExplaining {
    wanted: Faults,
    /// Before this position there is no fault that is still to be explained.
    next: u32,
    trail: ConnectionTrail,
    findings: Findings,
}

impl ConnectionExplaining {
    /// Before any event: these faults of this tested end will be explained.
    pub fn new(alloc: Global, tested: Tested, wanted: Faults) -> Self
        ensures wanted { result.wanted ≡ wanted }
        ensures agrees { IsConnectionExplaining result tested [] }
    {
        ConnectionExplaining {
            wanted,
            next: 0,
            trail: ConnectionTrail::new(tested),
            findings: Findings::new(alloc),
        }
    }

    /// Explains the faults of the next event, and takes it in.
    ///
    /// # Errors
    ///
    /// `Memory` if there is no memory for what it finds. Its state is then of no use.
    pub fn take(&mut self, at: Place3, note: &Note) -> Result<(), Memory>
        ensures wanted { OnOk result (self.new.wanted ≡ self.old.wanted) }
        ensures agrees { OnOk result ((tested : TheTested) (past : List Seen) → at.position ≡ length past + 1 → IsConnectionExplaining self.old tested past → IsConnectionExplaining self.new tested (seen at note.now ∷ past)) }
    {
        self.explain(at, note)?;
        self.trail.take(at, note);
        Ok(())
    }

    // Explains the faults of the next event.
    #[inline(always)]
    fn explain(&mut self, at: Place3, note: &Note) -> Result<(), Memory>
        ensures same { OnOk result ((self.new.wanted ≡ self.old.wanted) × (self.new.trail ≡ self.old.trail)) }
        ensures next { OnOk result ((count : ℕ) → at.position ≡ count + 1 → IsNext self.old.wanted self.old.next count → IsNext self.new.wanted self.new.next (count + 1)) }
        ensures explains { OnOk result ((tested : TheTested) (past : List Seen) → at.position ≡ length past + 1 → IsNext self.old.wanted self.old.next (length past) → IsConnectionTrail self.old.trail tested past → (k : ℕ) (r : TheRule)
            → found_at self.new.findings k r ≡ option_or (explained_at (is_on_connection tested.role) (map.entries self.old.wanted) at.position k r (found (reason tested.role r) None None (newest (seen at note.now) past))) (found_at self.old.findings k r)) }
    {
        if at.position < self.next {
            return Ok(());
        }
        self.explain_due(at, note)?;
        Ok(())
    }

    // The same, where a fault may be.
    #[inline(never)]
    fn explain_due(&mut self, at: Place3, note: &Note) -> Result<(), Memory>
        ensures same { OnOk result ((self.new.wanted ≡ self.old.wanted) × (self.new.trail ≡ self.old.trail)) }
        ensures next { OnOk result (IsNext self.new.wanted self.new.next at.position) }
        ensures explains { OnOk result ((tested : TheTested) (past : List Seen) → IsConnectionTrail self.old.trail tested past → (k : ℕ) (r : TheRule)
            → found_at self.new.findings k r ≡ option_or (explained_at (is_on_connection tested.role) (map.entries self.old.wanted) at.position k r (found (reason tested.role r) None None (newest (seen at note.now) past))) (found_at self.old.findings k r)) }
    {
        self.trail
            .explain(&self.wanted, at, note, &mut self.findings)?;
        self.next = next_after(&self.wanted, at.position);
        Ok(())
    }

    /// The faults that it explains.
    pub fn wanted(&self) -> &Faults
        ensures { result.now ≡ self.now.wanted }
    {
        &self.wanted
    }

    /// The position of the server's first CONNACK on the connection.
    pub fn connack(&self) -> Option<u32>
        ensures { (tested : TheTested) (past : List Seen) → IsConnectionExplaining self.now tested past → result ≡ option_map position (earliest (is_connack tested.role) (connection past)) }
    {
        self.trail.connack()
    }

    /// What it has found.
    pub fn findings(&self) -> &Findings
        ensures { result.now ≡ self.now.findings }
    {
        &self.findings
    }
}
