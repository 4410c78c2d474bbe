//! A watcher that explains the faults of the statements on sessions.
ghost use Rattle.std.specs.Prelude.{◌≡◌, ◌∷◌, ℕ, [], false, List, OnOk, Some};
ghost use Rattle.mq_rules.specs.declared.role.Tested.{Tested as TheTested};
ghost use Rattle.mq_rules.specs.declared.fate.Fate.TheVariants.{Void};
ghost use Rattle.mq_rules.specs.declared.note.Seen.{Seen};
ghost use Rattle.mq_rules.specs.Notes.{note_of_bare};
ghost use Rattle.mq_rules.specs.Under.{seen, IsUnder, fate_before};
ghost use Rattle.mq_evidence.specs.Trailing.{IsExplaining};

use mq_evidence::Explaining;
use mq_fates::{Fated, Taken};
use mq_log::Place3;
use mq_rules::{Bare, Fate, Faults, Memory, NoteRef, Noted};
use std::marker::{Brand, PhantomData};

/// Which faults are explained. Each call that reads a log picks them.
pub trait Wanted {
    ghost use Rattle.mq_rules.specs.FaultKeys.{FaultMap};

    ghost wanted: { FaultMap };
}

impl Wanted for Brand {
    ghost use Rattle.std.specs.FinMap as map;

    ghost wanted = { map.empty };
}

/// Explains faults as their events come, each with the fate of its connection. It judges no
/// statement.
///
/// No code uses `K`. It is there for the proofs: by it `agrees` can say which faults are explained.
pub struct Reviewing<K> {
    /// What it has explained.
    pub explaining: Explaining,
    wanted: PhantomData<K>,
}

// A function of its own, so that whoever drops it needn't spell out all that is freed. Nor does
// this one: what is much to free is passed to `drop`.
impl<K> Drop for Reviewing<K> {
    #[inline(never)]
    fn drop(self) {
        let Reviewing {
            explaining,
            wanted: _wanted,
        } = self;
        drop(explaining);
    }
}

impl<K: Wanted> Reviewing<K> {
    /// Explains by this, before any event.
    pub fn new(explaining: Explaining) -> Self
        ensures explaining { result.explaining ≡ explaining }
        ensures agrees { (tested : TheTested) → IsExplaining explaining tested (Some Void) [] → explaining.wanted ≡ K.wanted → ⟦<Reviewing<K> as Fated>⟧.agrees result tested (Some Void) [] }
    {
        Reviewing {
            explaining,
            wanted: PhantomData,
        }
    }
}

// Takes in a bare packet by a note that is made of it.
#[inline(never)]
fn take_bare(
    explaining: &mut Explaining,
    at: Place3,
    fate: Fate,
    bare: Bare<'_>,
) -> Result<(), Memory>
    ensures wanted { OnOk result (explaining.new.wanted ≡ explaining.old.wanted) }
    ensures agrees { OnOk result ((tested : TheTested) (decided : ℕ) (past : List Seen) → IsUnder tested fate decided (seen at (note_of_bare bare.entry)) past → IsExplaining explaining.old tested (fate_before tested fate (seen at (note_of_bare bare.entry)) past) past → IsExplaining explaining.new tested (Some fate) (seen at (note_of_bare bare.entry) ∷ past)) }
{
    let note = bare.note();
    explaining.take(at, fate, &note)?;
    Ok(())
}

impl<K: Wanted> Fated for Reviewing<K> {
    ghost agrees = { λ s tested taken past. IsExplaining s.explaining tested taken past × (s.explaining.wanted ≡ K.wanted) };

    ghost judges = { λ r. false };

    ghost weighs = { λ s. 0 };

    ghost bound = { λ tested taken past. 0 };

    fn fated<E: Taken>(
        &mut self,
        at: Place3,
        _: u32,
        fate: Fate,
        event: &E,
        _: &mut Faults,
    ) -> Result<(), Memory> {
        match event.as_ref() {
            NoteRef::Kept(note) => self.explaining.take(at, fate, note)?,
            NoteRef::Bare(bare) => take_bare(&mut self.explaining, at, fate, bare)?,
        }
        Ok(())
    }

    // It isn't weighed: a log is read a second time only if it has faults.
    fn weight(&self) -> usize {
        0
    }
}
