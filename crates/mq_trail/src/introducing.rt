//! A watcher that explains the faults of the statements on connections, and keeps the CONNACK of
//! each REST that shows one of S06.
ghost use Rattle.std.specs.Prelude.{◌≡◌, ◌∷◌, ◌+◌, [], false, refl, List, Some, length};
ghost use Rattle.mq_rules.specs.declared.role.Tested.{Tested as TheTested};
ghost use Rattle.mq_rules.specs.declared.fate.Fate.TheVariants.{Void};
ghost use Rattle.mq_evidence.specs.ConnectionTrails.{IsConnectionExplaining};
ghost use Rattle.mq_trail.specs.Resting.{IsResting};

use crate::reviewing::Wanted;
use crate::until::Explainer;
use mq_evidence::{ConnectionExplaining, Rests};
use mq_log::Place3;
use mq_rules::{Faults, Memory, Note, Watch};
use std::marker::PhantomData;

/// Explains faults as their events come, whatever becomes of the connection. It judges no
/// statement.
///
/// No code uses `K`. It is there for the proofs: by it `agrees` can say which faults are explained.
pub struct Introducing<K> {
    /// What it has explained.
    pub explaining: ConnectionExplaining,
    /// The RESTs that show faults of S06.
    pub rests: Rests,
    wanted: PhantomData<K>,
}

// A function of its own, so that whoever drops it needn't spell out all that is freed.
impl<K> Drop for Introducing<K> {
    #[inline(never)]
    fn drop(self) {
        let Introducing {
            explaining: _explaining,
            rests: _rests,
            wanted: _wanted,
        } = self;
    }
}

impl<K: Wanted> Introducing<K> {
    /// Explains by this, before any event.
    pub fn new(explaining: ConnectionExplaining, rests: Rests) -> Self
        ensures explaining { result.explaining ≡ explaining }
        ensures agrees { (tested : TheTested) → IsConnectionExplaining explaining tested [] → explaining.wanted ≡ K.wanted → IsResting rests K.wanted tested.role [] → ⟦<Introducing<K> as Watch>⟧.agrees result tested (Some Void) [] }
    {
        Introducing {
            explaining,
            rests,
            wanted: PhantomData,
        }
    }
}

impl<K: Wanted> Watch for Introducing<K> {
    ghost agrees = { λ s tested taken past. IsConnectionExplaining s.explaining tested past × (s.explaining.wanted ≡ K.wanted) × IsResting s.rests K.wanted tested.role past };

    ghost takes = { λ tested taken e past. Unit {0} };

    ghost adds = { λ tested e past k r. false };

    ghost weighs = { λ s. 0 };

    ghost bound = { λ tested taken past. 0 };

    fn step(&mut self, at: Place3, note: &Note, _: &mut Faults) -> Result<(), Memory> {
        self.rests.take(at.position, self.explaining.connack());
        self.explaining.take(at, note)?;
        Ok(())
    }

    // It isn't weighed: a log is read a second time only if it has faults.
    fn weight(&self) -> usize {
        0
    }
}

impl<K: Wanted> Explainer for Introducing<K> {
    ghost takes_any = { λ tested taken e past on. tt };

    ghost adds_none = { λ tested e past k r. refl };
}
