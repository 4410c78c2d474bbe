//! The last SUBSCRIBE of each Topic Filter (MQTT 5.0, sections 3.8.4 and 4.7). The evidence of B02
//! looks at those that stand whatever comes, and that of B09, P01, P02, R01 and R02 at all that were
//! asked for.
ghost use Rattle.std.specs.Prelude.{◌≡◌, ◌∷◌, [], ◌||◌, ◌&&◌, nat_le, ℕ, Bool, true, None, List, OnOk, cond};
ghost use Rattle.std.specs.List.{list_any};
ghost use Rattle.std.specs.String.{string_bytes, string_eq};
ghost use Rattle.indexmap.specs.IndexMap.{get_by_text, IsUnique};
ghost use Rattle.mq_topic.specs.Matching.{matches as is_match, is_empty as empty};
ghost use Rattle.mq_filters.specs.Standings.{has_ceiling, allows, stands_any, AllFilters};

use crate::subscribed::copy_of;
use crate::tables::later;
use indexmap::IndexMap;
use mq_rules::Memory;
use mq_topic::{check_name, matches};
use std::alloc::Global;
use std::marker::Model;

/// The position of the last SUBSCRIBE of each filter.
///
/// A filter without a wildcard matches the topic that equals it and no other, so it is looked up.
pub struct LastRequests {
    literal: IndexMap<String, u32>,
    wild: IndexMap<String, u32>,
}

// A filter with a position, as one with a ceiling: the greatest counts.
impl Model for LastRequests {
    ghost use Rattle.std.specs.Prelude.{List, ◌++◌};
    ghost use Rattle.mq_topic.specs.Ceilings.{Standing};
    ghost use Rattle.mq_filters.specs.Standings.{standings, IsSplit};

    ghost Value = { List Standing };

    ghost view = { λ f. standings f.literal.entries ++ standings f.wild.entries };

    ghost invariant = { λ f. IsSplit f.literal.entries f.wild.entries };
}

// As a derived one, but a call of its own.
impl Drop for LastRequests {
    #[inline(never)]
    fn drop(self) {
        let LastRequests {
            literal: _literal,
            wild: _wild,
        } = self;
    }
}

// Whether a SUBSCRIBE of a filter is known that is at this position or a later one.
fn is_known(last: &IndexMap<String, u32>, filter: &str, position: u32) -> bool
    ensures { result ≡ has_ceiling (nat_le position) (get_by_text last.now filter.now) }
{
    match last.get(filter) {
        Some(known) => position <= *known,
        None => false,
    }
}

// Keeps the position of a SUBSCRIBE for a filter, unless a later one is known.
fn keep(
    alloc: Global,
    last: &mut IndexMap<String, u32>,
    filter: &str,
    position: u32,
) -> Result<(), Memory>
    ensures stands { OnOk result ((among : List ℕ → Bool) (first : ℕ) → stands_any among first last.new.entries ≡ (stands_any among first last.old.entries || list_any (allows among first) (record { filter = filter.now; ceiling = position } ∷ []))) }
    ensures all { (test : List ℕ → Bool) → test filter.now ≡ true → AllFilters test last.old.entries → AllFilters test last.new.entries }
    ensures unique { IsUnique string_eq last.old → IsUnique string_eq last.new }
{
    if is_known(last, filter, position) {
        return Ok(());
    }
    let copy = copy_of(alloc, filter)?;
    last.insert(copy, position)?;
    Ok(())
}

// The last SUBSCRIBE of the filter that matches a topic, among those without a wildcard.
fn literal_position(literal: &IndexMap<String, u32>, topic: &str) -> Option<u32>
    ensures { result ≡ cond (empty topic.now) None (get_by_text literal.now topic.now) }
{
    if topic.is_empty() {
        return None;
    }
    match literal.get(topic) {
        Some(position) => Some(*position),
        None => None,
    }
}

// The last of these SUBSCRIBEs whose filter matches a topic.
fn position_among(last: &IndexMap<String, u32>, topic: &str) -> Option<u32>
    ensures { (first : ℕ) → has_ceiling (nat_le first) result ≡ list_any (λ e. is_match (string_bytes e.0) topic.now && nat_le first e.1) last.now.entries }
{
    let mut best = None;
    for (filter, position) in last {
        best = later_if_matching(best, filter.as_str(), *position, topic);
    }
    best
}

/// The later one of two positions: it is at a position or after it if one of them is.
pub fn later_of(a: Option<u32>, b: Option<u32>) -> Option<u32>
    ensures { (first : ℕ) → has_ceiling (nat_le first) result ≡ (has_ceiling (nat_le first) a || has_ceiling (nat_le first) b) }
{
    later(a, b)
}

// The later of a SUBSCRIBE and another one, if the other's filter matches a topic.
fn later_if_matching(best: Option<u32>, filter: &str, position: u32, topic: &str) -> Option<u32>
    ensures { (first : ℕ) → has_ceiling (nat_le first) result ≡ (has_ceiling (nat_le first) best || (is_match filter.now topic.now && nat_le first position)) }
{
    if matches(filter, topic) {
        return later_of(best, Some(position));
    }
    best
}

impl LastRequests {
    /// There is no filter.
    pub fn new(alloc: Global) -> Self
        ensures { result ≡ [] }
    {
        LastRequests {
            literal: IndexMap::new(alloc),
            wild: IndexMap::new(alloc),
        }
    }

    /// Adds a filter of the SUBSCRIBE at a position, or that position to it if it is later.
    ///
    /// # Errors
    ///
    /// `Memory` if there is no memory for it.
    pub fn stand(&mut self, alloc: Global, filter: &str, position: u32) -> Result<(), Memory>
        ensures { OnOk result ((among : List ℕ → Bool) (first : ℕ) → list_any (allows among first) self.new ≡ (list_any (allows among first) self.old || list_any (allows among first) (record { filter = filter.now; ceiling = position } ∷ []))) }
    {
        if check_name(filter) {
            return keep(alloc, &mut self.literal, filter, position);
        }
        keep(alloc, &mut self.wild, filter, position)
    }

    /// The position of the last SUBSCRIBE of the filters that match a topic.
    pub fn last_for(&self, topic: &str) -> Option<u32>
        ensures { (first : ℕ) → has_ceiling (nat_le first) result ≡ list_any (λ s. is_match s.filter topic.now && nat_le first s.ceiling) self.now }
    {
        let literal = literal_position(&self.literal, topic);
        later_of(literal, position_among(&self.wild, topic))
    }
}
