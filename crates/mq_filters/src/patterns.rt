//! Topic Filters with wildcards, looked up by their pattern (MQTT 5.0, section 4.7).
//!
//! The pattern of a filter says which of its levels are `+` or `#`. A topic says what the other
//! levels are of a filter of a pattern that matches it. So there is one such filter at most, and it
//! is looked up.
ghost use Rattle.std.specs.Prelude.{◌≡◌, ◌∷◌, [], ◌++◌, ◌%◌, ◌/◌, ◌==◌, ◌&&◌, not, nat_le, ℕ, true, List, Some, None, cond, OnOk, IfOk, IfSome, IfNone};
ghost use Rattle.std.specs.List.{list_any};
ghost use Rattle.std.specs.String.{string_bytes, string_eq};
ghost use Rattle.indexmap.specs.IndexMap.{get_by_text, IsUnique};
ghost use Rattle.mq_topic.specs.Levels.{is_name};
ghost use Rattle.mq_topic.specs.Matching.{matches as is_match, begins_dollar as is_dollar};
ghost use Rattle.mq_filters.specs.Standings.{has_ceiling, AllFilters};
ghost use Rattle.mq_filters.specs.Patterning.{with_byte as one_more, pattern_of as true_pattern, fill as filled_text, is_plain as plain_topic, knows};

use crate::ceilings::{ceiling_among, higher};
use indexmap::IndexMap;
use mq_topic::check_name;
use std::alloc::{AllocError, Global};
use std::marker::Model;

/// How many patterns are kept.
const MOST: usize = 16;

// A filter that is looked up takes some eight times what it takes to see of one that it differs
// from the topic. So the filters are looked up if there are this many for each pattern.
const FOR_EACH_PATTERN: usize = 8;

// Of so few patterns the filters are always looked up.
const FEW: usize = 4;

/// The patterns of filters. They are known as long as they are few, and no filter has a wildcard
/// after its fortieth level.
#[derive(Drop)]
pub struct Patterns {
    kept: [u64; MOST],
    count: usize,
}

impl Model for Patterns {
    ghost use Rattle.std.specs.Prelude.{◌≡◌, ℕ, List, Option, length};
    ghost use Rattle.mq_filters.specs.Patterning.{known_patterns};

    ghost Value = { Option (List ℕ) };

    ghost view = { λ s. known_patterns s.kept s.count };

    ghost invariant = { λ s. length s.kept ≡ 16 };
}

// ---- the pattern of a filter

// A pattern with one byte more in front.
fn with_byte(pattern: u64, byte: u8) -> Option<u64>
    ensures { IfSome result (λ s. s ≡ one_more byte pattern) }
{
    match byte {
        b'/' => pattern.checked_mul(3),
        b'+' => pattern.checked_add(1),
        b'#' => pattern.checked_add(2),
        _ => Some(pattern),
    }
}

// The pattern of a filter, unless it has a wildcard after too many levels.
fn pattern_of(filter: &[u8]) -> Option<u64>
    ensures { IfSome result (λ s. s ≡ true_pattern filter.now) }
{
    let mut pattern = 0_u64;
    let mut at = filter.len();
    while at > 0 {
        at -= 1;
        pattern = with_byte(pattern, filter[at])?;
    }
    Some(pattern)
}

// ---- the filter of a pattern

// A level of the filter of a pattern: `+`, or what it is in the topic.
#[inline]
fn level_of<'a>(pattern: u64, level: &'a str) -> &'a str
    ensures { result.now ≡ cond (pattern % 3 == 1) (43 ∷ []) level.now }
{
    if pattern % 3 == 1 {
        return "+";
    }
    level
}

// Appends the last level of a topic, and `#` if the filter has that after it.
fn push_last(filter: &mut String, pattern: u64, level: &str) -> Result<(), AllocError>
    ensures { OnOk result (string_bytes filter.new ≡ string_bytes filter.old ++ (cond (pattern % 3 == 1) (43 ∷ []) level.now ++ cond (pattern / 3 % 3 == 2) (47 ∷ 35 ∷ []) [])) }
{
    filter.push_str(level_of(pattern, level))?;
    if pattern / 3 % 3 == 2 {
        filter.push_str("/#")?;
    }
    Ok(())
}

// Appends the filter of a pattern that matches a topic.
fn fill(filter: &mut String, pattern: u64, topic: &str) -> Result<(), AllocError>
    ensures { OnOk result (string_bytes filter.new ≡ string_bytes filter.old ++ filled_text pattern topic.now) }
{
    let mut pattern = pattern;
    let mut topic = topic;
    while pattern > 0 {
        if pattern % 3 == 2 {
            filter.push_str("#")?;
            return Ok(());
        }
        let Some((level, others)) = topic.split_once('/') else {
            return push_last(filter, pattern, topic);
        };
        filter.push_str(level_of(pattern, level))?;
        filter.push_str("/")?;
        topic = others;
        pattern /= 3;
    }
    filter.push_str(topic)?;
    Ok(())
}

// ---- filters that match

// Whether a topic begins with `$`: no filter that begins with a wildcard matches it (MQTT 5.0,
// section 4.7.2).
fn begins_dollar(topic: &str) -> bool
    ensures { result ≡ is_dollar topic.now }
{
    matches!(topic.as_bytes().first(), Some(b'$'))
}

// Whether a topic is a name, isn't empty and doesn't begin with `$`.
fn is_plain(topic: &str) -> bool
    ensures { result ≡ plain_topic topic.now }
{
    check_name(topic) && !topic.is_empty() && !begins_dollar(topic)
}

// The ceiling of the filter of a pattern that matches a topic. The text is written anew.
fn ceiling_of(
    filter: &mut String,
    pattern: u64,
    wild: &IndexMap<String, u8>,
    topic: &str,
) -> Result<Option<u8>, AllocError>
    ensures { IfOk result (λ ceiling. ceiling ≡ get_by_text wild.now (filled_text pattern topic.now)) }
{
    filter.clear();
    fill(filter, pattern, topic)?;
    match wild.get(filter.as_str()) {
        Some(ceiling) => Ok(Some(*ceiling)),
        None => Ok(None),
    }
}

// The greatest ceiling of the filters of these patterns that match a topic.
fn ceiling_by(
    alloc: Global,
    patterns: &[u64],
    wild: &IndexMap<String, u8>,
    topic: &str,
) -> Result<Option<u8>, AllocError>
    ensures { IfOk result (λ ceiling. (qos : ℕ) → has_ceiling (nat_le qos) ceiling ≡ list_any (λ s. has_ceiling (nat_le qos) (get_by_text wild.now (filled_text s topic.now))) patterns.now) }
{
    let mut filter = String::with_capacity(alloc, topic.len().saturating_add(2))?;
    let mut best = None;
    for pattern in patterns {
        let found = ceiling_of(&mut filter, *pattern, wild, topic)?;
        best = higher(best, found);
    }
    Ok(best)
}

/// The greatest ceiling of the filters of a map that match a topic. All have a wildcard, and the
/// patterns are theirs.
///
/// Where the filters are few for so many patterns, it takes less to go through them.
///
/// # Errors
///
/// `AllocError` if there is no memory for the filter that is looked up.
pub fn wild_ceiling(
    alloc: Global,
    patterns: &Patterns,
    wild: &IndexMap<String, u8>,
    topic: &str,
) -> Result<Option<u8>, AllocError>
    ensures { AllFilters (λ f. not (is_name f)) wild.now.entries → AllFilters (λ f. knows patterns.now (true_pattern f)) wild.now.entries → IsUnique string_eq wild.now → IfOk result (λ ceiling. (qos : ℕ) → has_ceiling (nat_le qos) ceiling ≡ list_any (λ e. is_match (string_bytes e.0) topic.now && nat_le qos e.1) wild.now.entries) }
{
    if wild.is_empty() {
        return Ok(None);
    }
    let Some(known) = patterns.known() else {
        return Ok(ceiling_among(wild, topic));
    };
    if known.len() <= wild.len() / FOR_EACH_PATTERN + FEW && is_plain(topic) {
        return ceiling_by(alloc, known, wild, topic);
    }
    Ok(ceiling_among(wild, topic))
}

impl Patterns {
    /// Those of no filter.
    pub fn new() -> Self
        ensures { result ≡ Some [] }
    {
        Patterns {
            kept: [0; MOST],
            count: 0,
        }
    }

    /// The patterns, if they are known.
    pub fn known(&self) -> Option<&[u64]>
        ensures known { IfSome result (λ known. self.now ≡ Some known.now) }
        ensures unknown { IfNone result (self.now ≡ None) }
    {
        self.kept.get(..self.count)
    }

    /// Adds the pattern of a filter.
    pub fn add(&mut self, filter: &str)
        ensures added { knows self.new (true_pattern filter.now) ≡ true }
        ensures kept { (pattern : ℕ) → knows self.old pattern ≡ true → knows self.new pattern ≡ true }
    {
        match pattern_of(filter.as_bytes()) {
            Some(pattern) => self.add_pattern(pattern),
            None => self.count = MOST + 1,
        }
    }

    // Keeps a pattern, unless it is kept already. If it is one too many, none is known any more.
    fn add_pattern(&mut self, pattern: u64)
        ensures added { knows self.new pattern ≡ true }
        ensures kept { (other : ℕ) → knows self.old other ≡ true → knows self.new other ≡ true }
    {
        if self.has(pattern) {
            return;
        }
        if self.count >= MOST {
            self.count = MOST + 1;
            return;
        }
        self.kept[self.count] = pattern;
        self.count += 1;
    }

    // Whether a pattern is known, or none is.
    fn has(&self, pattern: u64) -> bool
        ensures { result ≡ knows self.now pattern }
    {
        match self.known() {
            Some(known) => known.contains(&pattern),
            None => true,
        }
    }
}
