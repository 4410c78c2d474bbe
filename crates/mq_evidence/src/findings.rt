//! The evidence that was found, under the keys of the faults.
ghost use Rattle.std.specs.Prelude.{◌≡◌, ◌&&◌, ℕ, OnOk, Some, None, nat_eq, cond};
ghost use Rattle.mq_rules.specs.declared.rule.Rule.{Rule as TheRule};
ghost use Rattle.mq_rules.specs.Rules.{same_rule};
ghost use Rattle.mq_evidence.specs.Findings.{found_at};

use mq_rules::{Evidence, FaultKey, Memory};
use std::alloc::Global;
use std::collections::BTreeMap;

/// What faults conflict with, each under its fault's key.
#[derive(Drop)]
pub struct Findings {
    found: BTreeMap<FaultKey, Evidence>,
}

impl Findings {
    /// Nothing was found.
    pub fn new(alloc: Global) -> Self
        ensures { (k : ℕ) (r : TheRule) → found_at result k r ≡ None }
    {
        Findings {
            found: BTreeMap::new(alloc),
        }
    }

    /// Adds what a fault conflicts with.
    ///
    /// # Errors
    ///
    /// `Memory` if there is no memory for it.
    pub fn add(&mut self, key: FaultKey, evidence: Evidence) -> Result<(), Memory>
        ensures { OnOk result ((k : ℕ) (r : TheRule) → found_at self.new k r ≡ cond (nat_eq key.position k && same_rule key.rule r) (Some evidence) (found_at self.old k r)) }
    {
        self.found.insert(key, evidence)?;
        Ok(())
    }

    /// What a fault conflicts with, if it was found.
    pub fn get(&self, key: FaultKey) -> Option<Evidence>
        ensures { result ≡ found_at self.now key.position key.rule }
    {
        self.found.get(&key).copied()
    }
}
