//! The faults that were found: at most one for each pair of a position and a statement.
ghost use Rattle.std.specs.Prelude.{◌≡◌, ◌==◌, OnOk, OnErr, Option, None, true, option_map};
ghost use Rattle.std.specs.FinMap as map;
ghost use Rattle.std.specs.Map.Iter.{ShowsInOrder, deref_pair};
ghost use Rattle.mq_rules.specs.FaultKeys.{fault_at, faults_at, first_from, decided_elsewhere, with_fault, judged};

use crate::fault::Fault;
use crate::rule::Rule;
use mq_log::Place3;
use std::alloc::{AllocError, AllocFailed, Global};
use std::collections::BTreeMap;
use std::collections::btree_map::{Iter, Range};
use std::marker::Model;

/// An allocation failed: there is no memory left.
#[derive(Clone, Copy, Debug, PartialEq, Eq)]
pub struct Memory;

impl<T: Drop> From<AllocFailed<T>> for Memory {
    fn from(_: AllocFailed<T>) -> Self {
        Memory
    }
}

impl From<AllocError> for Memory {
    fn from(_: AllocError) -> Self {
        Memory
    }
}

/// A pair of a position and a statement. Keys are ordered by position, and then by statement, as
/// reports are.
#[derive(Clone, Copy, Debug, PartialEq, Eq, PartialOrd, Ord)]
pub struct FaultKey {
    /// The event's number among the events, counted from 1.
    pub position: u32,
    /// The statement that is false there.
    pub rule: Rule,
}

/// The faults that were found, each under its key.
#[derive(Drop)]
pub struct Faults {
    found: BTreeMap<FaultKey, Fault>,
}

impl Model for Faults {
    ghost use Rattle.std.specs.FinMap as map;
    ghost use Rattle.mq_rules.specs.FaultKeys.{key_cmp};
    ghost use Rattle.mq_rules.specs.declared.fault.Fault.{Fault};
    ghost use Rattle.mq_rules.specs.contracts.faults.FaultKey as key;
    ghost use Rattle.mq_rules.specs.contracts.fault.Fault as fault;

    ghost Value = { map.FinMap key_cmp Fault };

    ghost coded = { map.code key.the_row.coded fault.the_row.coded };

    ghost view = { λ a. map.from_entries a.found.entries };
}

impl Faults {
    /// No faults.
    pub fn new(alloc: Global) -> Self
        ensures { result ≡ map.empty }
    {
        Faults {
            found: BTreeMap::new(alloc),
        }
    }

    /// Adds a fault under its key, unless the key has one already: the first one stays.
    ///
    /// # Errors
    ///
    /// `Memory` if there is no memory for a new key. The faults are then unchanged.
    pub fn add(&mut self, key: FaultKey, fault: Fault) -> Result<(), Memory>
        ensures ok { OnOk result (self.new ≡ with_fault key fault self.old) }
        ensures absent { OnErr result (map.get self.old key ≡ None) }
        ensures unchanged { OnErr result (self.new ≡ self.old) }
    {
        if self.found.contains_key(&key) {
            return Ok(());
        }
        self.found.insert(key, fault)?;
        Ok(())
    }

    /// Adds the fault of a statement that is judged at its own position, if it is broken and the
    /// key has no fault yet.
    ///
    /// # Errors
    ///
    /// `Memory` if there is no memory for a new key. The faults are then unchanged.
    pub fn judge(&mut self, rule: Rule, place: Place3, broken: bool) -> Result<(), Memory>
        ensures ok { OnOk result (self.new ≡ judged broken rule place self.old) }
        ensures needed { OnErr result (broken ≡ true) }
        ensures absent { OnErr result (fault_at self.old place.position rule ≡ None) }
        ensures unchanged { OnErr result (self.new ≡ self.old) }
    {
        if !broken {
            return Ok(());
        }
        let key = FaultKey {
            position: place.position,
            rule,
        };
        self.add(key, Fault::at_once(place, None))?;
        Ok(())
    }

    /// Removes the faults that were decided at this position. It needs no memory.
    pub fn drop_decided(&mut self, position: u32)
        ensures { map.entries self.new ≡ decided_elsewhere position (map.entries self.old) }
    {
        self.found.retain(|_, fault| fault.decided != position);
    }

    /// The fault under a key, if there is one.
    pub fn get(&self, key: FaultKey) -> Option<Fault>
        ensures { result ≡ map.get self.now key }
    {
        self.found.get(&key).copied()
    }

    /// How many faults there are.
    pub fn len(&self) -> usize
        ensures { result ≡ map.len self.now }
    {
        self.found.len()
    }

    /// Whether there are none.
    pub fn is_empty(&self) -> bool
        ensures { result ≡ (map.len self.now == 0) }
    {
        self.len() == 0
    }

    /// The faults with their keys, in ascending order: by position, and then in the order of the
    /// statements.
    pub fn iter(&self) -> Iter<'_, FaultKey, Fault>
        ensures rest { result ≡ map.entries self.now }
        ensures runs { ShowsInOrder (deref_pair {K = FaultKey} {X = Fault}) }
    {
        self.found.iter()
    }

    /// The faults at a position with their keys, in the order of the statements.
    pub fn at(&self, position: u32) -> Range<'_, FaultKey, Fault>
        ensures rest { result ≡ faults_at position (map.entries self.now) }
        ensures runs { ShowsInOrder (deref_pair {K = FaultKey} {X = Fault}) }
    {
        let first = FaultKey {
            position,
            rule: Rule::W01,
        };
        let last = FaultKey {
            position,
            rule: Rule::K02,
        };
        self.found.range(first..=last)
    }

    /// The first position with a fault from this position on, if there is one.
    pub fn first_from(&self, position: u32) -> Option<u32>
        ensures { result ≡ first_from position (map.entries self.now) }
    {
        let first = FaultKey {
            position,
            rule: Rule::W01,
        };
        let (key, _) = self.found.range(first..).next()?;
        Some(key.position)
    }
}
