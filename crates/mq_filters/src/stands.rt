//! Topic Filters that stand, each with the greatest QoS of what may be sent for it (MQTT 5.0,
//! sections 3.8.4 and 4.7).
ghost use Rattle.std.specs.Prelude.{◌≡◌, ◌≤◌, ◌∷◌, [], ◌||◌, ◌&&◌, nat_le, ℕ, Bool, true, None, List, length, OnOk, IfOk, cond};
ghost use Rattle.std.specs.List.{list_any, list_all};
ghost use Rattle.std.specs.Set.{distinct_count};
ghost use Rattle.std.specs.Str.{bytes_eq};
ghost use Rattle.std.specs.String.{string_bytes, string_eq};
ghost use Rattle.indexmap.specs.IndexMap.{get_by_text, IsUnique};
ghost use Rattle.mq_topic.specs.Levels.{is_name};
ghost use Rattle.mq_topic.specs.Matching.{matches as is_match, is_empty as empty};
ghost use Rattle.mq_filters.specs.Standings.{has_ceiling, allows, standings, stands_any, AllFilters};

use crate::ceilings::{ceiling_among, higher};
use crate::patterns::{Patterns, wild_ceiling};
use indexmap::IndexMap;
use mq_topic::check_name;
use std::alloc::{AllocError, Global};
use std::marker::Model;

// Whether a filter stands with at least this ceiling.
fn stands(standing: &IndexMap<String, u8>, filter: &str, ceiling: u8) -> bool
    ensures { result ≡ has_ceiling (nat_le ceiling) (get_by_text standing.now filter.now) }
{
    match standing.get(filter) {
        Some(known) => ceiling <= *known,
        None => false,
    }
}

// A copy of a text.
fn copy_of(alloc: Global, text: &str) -> Result<String, AllocError>
    ensures { IfOk result (λ copy. string_bytes copy ≡ text.now) }
{
    let mut copy = String::with_capacity(alloc, text.len())?;
    copy.push_str(text)?;
    Ok(copy)
}

// Adds a filter to a map, or raises its ceiling there.
fn raise(
    alloc: Global,
    standing: &mut IndexMap<String, u8>,
    filter: &str,
    ceiling: u8,
) -> Result<(), AllocError>
    ensures stands { OnOk result ((among : List ℕ → Bool) (qos : ℕ) → stands_any among qos standing.new.entries ≡ (stands_any among qos standing.old.entries || list_any (allows among qos) (record { filter = filter.now; ceiling = ceiling } ∷ []))) }
    ensures all { (test : List ℕ → Bool) → test filter.now ≡ true → AllFilters test standing.old.entries → AllFilters test standing.new.entries }
    ensures unique { IsUnique string_eq standing.old → IsUnique string_eq standing.new }
{
    if stands(standing, filter, ceiling) {
        return Ok(());
    }
    let copy = copy_of(alloc, filter)?;
    standing.insert(copy, ceiling)?;
    Ok(())
}

// The ceiling of the filter that matches a topic, among those without a wildcard.
fn literal_ceiling(literal: &IndexMap<String, u8>, topic: &str) -> Option<u8>
    ensures { result ≡ cond (empty topic.now) None (get_by_text literal.now topic.now) }
{
    if topic.is_empty() {
        return None;
    }
    match literal.get(topic) {
        Some(ceiling) => Some(*ceiling),
        None => None,
    }
}

/// Filters that stand, each with the greatest QoS of what may be sent for it.
///
/// A filter without a wildcard matches the topic that equals it and no other, so it is looked up.
/// So are those with wildcards, by their patterns, if these are few.
pub struct StandingFilters {
    literal: IndexMap<String, u8>,
    wild: IndexMap<String, u8>,
    patterns: Patterns,
}

impl Model for StandingFilters {
    ghost use Rattle.std.specs.Prelude.{List, ◌++◌};
    ghost use Rattle.mq_topic.specs.Ceilings.{Standing};
    ghost use Rattle.mq_filters.specs.Standings.{standings, IsSplit};
    ghost use Rattle.mq_filters.specs.Patterning.{AreKnown};

    ghost Value = { List Standing };

    ghost view = { λ f. standings f.literal.entries ++ standings f.wild.entries };

    ghost invariant = { λ f. IsSplit f.literal.entries f.wild.entries × AreKnown f.patterns f.wild.entries };
}

// As a derived one, but a call of its own.
impl Drop for StandingFilters {
    #[inline(never)]
    fn drop(self) {
        let StandingFilters {
            literal: _literal,
            wild: _wild,
            patterns: _patterns,
        } = self;
    }
}

impl StandingFilters {
    /// No filter stands.
    pub fn new(alloc: Global) -> Self
        ensures { result ≡ [] }
    {
        StandingFilters {
            literal: IndexMap::new(alloc),
            wild: IndexMap::new(alloc),
            patterns: Patterns::new(),
        }
    }

    /// Adds a filter, or raises its ceiling.
    pub fn stand(&mut self, alloc: Global, filter: &str, ceiling: u8) -> Result<(), AllocError>
        ensures { OnOk result ((among : List ℕ → Bool) (qos : ℕ) → list_any (allows among qos) self.new ≡ (list_any (allows among qos) self.old || list_any (allows among qos) (record { filter = filter.now; ceiling = ceiling } ∷ []))) }
    {
        if check_name(filter) {
            return raise(alloc, &mut self.literal, filter, ceiling);
        }
        self.patterns.add(filter);
        raise(alloc, &mut self.wild, filter, ceiling)
    }

    /// The greatest ceiling of the filters that match a topic.
    ///
    /// # Errors
    ///
    /// `AllocError` if there is no memory to look for them.
    pub fn ceiling_for(&self, alloc: Global, topic: &str) -> Result<Option<u8>, AllocError>
        ensures { IfOk result (λ ceiling. (qos : ℕ) → has_ceiling (nat_le qos) ceiling ≡ list_any (λ s. is_match s.filter topic.now && nat_le qos s.ceiling) self.now) }
    {
        let literal = literal_ceiling(&self.literal, topic);
        let wild = wild_ceiling(alloc, &self.patterns, &self.wild, topic)?;
        Ok(higher(literal, wild))
    }

    // The same, without memory: it goes through all filters with wildcards.
    fn ceiling_by_all(&self, topic: &str) -> Option<u8>
        ensures { (qos : ℕ) → has_ceiling (nat_le qos) result ≡ list_any (λ s. is_match s.filter topic.now && nat_le qos s.ceiling) self.now }
    {
        let literal = literal_ceiling(&self.literal, topic);
        higher(literal, ceiling_among(&self.wild, topic))
    }

    /// The same for callers that can't fail: where there is no memory to look for the filters, it
    /// goes through all of them.
    pub fn ceiling_always(&self, alloc: Global, topic: &str) -> Option<u8>
        ensures { (qos : ℕ) → has_ceiling (nat_le qos) result ≡ list_any (λ s. is_match s.filter topic.now && nat_le qos s.ceiling) self.now }
    {
        match self.ceiling_for(alloc, topic) {
            Ok(ceiling) => ceiling,
            Err(AllocError) => self.ceiling_by_all(topic),
        }
    }

    /// Whether no filter has a wildcard.
    #[inline]
    pub fn is_literal(&self) -> bool
        ensures { result ≡ true → list_all (λ s. is_name s.filter) self.now ≡ true }
    {
        self.wild.is_empty()
    }

    /// How many filters there are. They are no more than the different ones among filters that have
    /// each of them.
    pub fn len(&self) -> usize
        ensures size { result ≡ length self.now }
        ensures different { (filters : List (List ℕ)) → ((f : List ℕ) → list_any (λ s. bytes_eq f s.filter) self.now ≡ true → list_any (bytes_eq f) filters ≡ true) → result ≤ distinct_count bytes_eq filters }
    {
        self.literal.len().saturating_add(self.wild.len())
    }
}
