//! How many Packet Identifiers a collection has, and how many it has at most.
//!
//! The weight of a watcher is the sum of the lengths of all collections that it keeps, which the
//! definitions of each crate list (`specs/Weights.antt`).
ghost use Rattle.std.specs.Prelude.{◌≡◌, ◌≤◌, ℕ, Bool, true, is_some, length, nat_eq};
ghost use Rattle.std.specs.List.{IsDistinct, list_any};
ghost use Rattle.indexmap.specs.IndexMap.{get, index_map_len};
ghost use Rattle.indexmap.specs.IndexSet.{contains, index_set_len};
ghost use Rattle.mq_rules.specs.IdentifierCounts.{ids_where};

use indexmap::{IndexMap, IndexSet};

// How many there are. If they all differ, they are no more than those that pass a test which each
// of them passes.
fn count_distinct(identifiers: &[u16]) -> usize
    ensures size { result ≡ length identifiers.now }
    ensures bounded { IsDistinct nat_eq identifiers.now → (test : ℕ → Bool) → ((i : ℕ) → list_any (nat_eq i) identifiers.now ≡ true → test i ≡ true) → result ≤ ids_where test }
{
    identifiers.len()
}

/// How many identifiers a set has. They are no more than those that pass a test which each of them
/// passes.
pub fn set_size(set: &IndexSet<u16>) -> usize
    ensures size { result ≡ index_set_len set.now }
    ensures bounded { (test : ℕ → Bool) → ((i : ℕ) → contains nat_eq set.now i ≡ true → test i ≡ true) → result ≤ ids_where test }
{
    count_distinct(set.as_slice())
}

/// How many identifiers a map has. They are no more than those that pass a test which each of them
/// passes.
pub fn map_size<V>(map: &IndexMap<u16, V>) -> usize
    ensures size { result ≡ index_map_len map.now }
    ensures bounded { (test : ℕ → Bool) → ((i : ℕ) → is_some (get nat_eq map.now i) ≡ true → test i ≡ true) → result ≤ ids_where test }
{
    count_distinct(map.keys().as_slice())
}
