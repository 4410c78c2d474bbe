//! The greatest QoS that one of many Topic Filters allows for a topic.
//!
//! It is kept as an `Option<u8>`, which is `None` as long as no filter matches. A clause says of it
//! which QoS it allows.
ghost use Rattle.std.specs.Prelude.{◌≡◌, ◌||◌, ◌&&◌, nat_le, ℕ, true};
ghost use Rattle.std.specs.List.{list_any};
ghost use Rattle.std.specs.String.{string_bytes};
ghost use Rattle.mq_topic.specs.Matching.{matches as is_match};
ghost use Rattle.mq_filters.specs.Standings.{has_ceiling, after_level, is_near};

use indexmap::IndexMap;
use mq_topic::matches;

/// Whether there is a ceiling that allows this QoS.
#[inline]
pub fn is_within(ceiling: Option<u8>, qos: u8) -> bool
    ensures { result ≡ has_ceiling (nat_le qos) ceiling }
{
    match ceiling {
        Some(ceiling) => qos <= ceiling,
        None => false,
    }
}

/// The ceiling that allows what one of two allows.
#[inline]
pub fn higher(first: Option<u8>, second: Option<u8>) -> Option<u8>
    ensures { (qos : ℕ) → has_ceiling (nat_le qos) result ≡ (has_ceiling (nat_le qos) first || has_ceiling (nat_le qos) second) }
{
    match (first, second) {
        (None, _) => second,
        (_, None) => first,
        (Some(low), Some(high)) => {
            if low <= high {
                return second;
            }
            first
        }
    }
}

/// The ceiling that also allows what this filter allows for a topic.
#[inline(never)]
pub fn raised_by(best: Option<u8>, filter: &str, ceiling: u8, topic: &str) -> Option<u8>
    ensures { (qos : ℕ) → has_ceiling (nat_le qos) result ≡ (has_ceiling (nat_le qos) best || (is_match filter.now topic.now && nat_le qos ceiling)) }
{
    if !matches(filter, topic) {
        return best;
    }
    higher(best, Some(ceiling))
}

/// The greatest ceiling of the filters of a map that match a topic.
pub fn ceiling_among(standing: &IndexMap<String, u8>, topic: &str) -> Option<u8>
    ensures { (qos : ℕ) → has_ceiling (nat_le qos) result ≡ list_any (λ e. is_match (string_bytes e.0) topic.now && nat_le qos e.1) standing.now.entries }
{
    let others = past_level(topic.as_bytes());
    let mut best = None;
    for (filter, ceiling) in standing {
        best = raised_if_near(best, filter.as_str(), *ceiling, topic, others);
    }
    best
}

// As `raised_by`, given what follows the first level of the topic. Most filters that don't match
// are told by a comparison of the bytes, which needn't know whether they are valid.
#[inline(always)]
fn raised_if_near(
    best: Option<u8>,
    filter: &str,
    ceiling: u8,
    topic: &str,
    others: &[u8],
) -> Option<u8>
    ensures { others.now ≡ after_level topic.now → (qos : ℕ) → has_ceiling (nat_le qos) result ≡ (has_ceiling (nat_le qos) best || (is_match filter.now topic.now && nat_le qos ceiling)) }
{
    if !may_match(filter.as_bytes(), topic.as_bytes(), others) {
        return best;
    }
    raised_by(best, filter, ceiling, topic)
}

// Whether a filter may match a topic, given what follows the topic's first level.
#[inline(always)]
fn may_match(filter: &[u8], topic: &[u8], others: &[u8]) -> bool
    ensures { others.now ≡ after_level topic.now → is_match filter.now topic.now ≡ true → result ≡ true }
{
    match filter.split_first() {
        Some((b'+', next_filter)) => is_alike(next_filter, others),
        _ => is_alike(filter, topic),
    }
}

// Whether a filter and a topic are alike up to a `#` or to the end of one of them, where a `+`
// stands for a level. Their common bytes come first.
#[inline(always)]
fn is_alike(filter: &[u8], topic: &[u8]) -> bool
    ensures { result ≡ is_near filter.now topic.now }
{
    let limit = filter.len().min(topic.len());
    let mut at = 0_usize;
    while at < limit {
        if filter[at] != topic[at] {
            if filter[at] == b'+' {
                return is_alike_by_levels(&filter[at..], &topic[at..]);
            }
            return filter[at] == b'#';
        }
        at += 1;
    }
    topic.len() <= filter.len()
}

// Whether they are alike from where they first differ, by a `+`. It is a function of its own, so
// that the loop over their common bytes is inlined without it.
#[inline(never)]
fn is_alike_by_levels(filter: &[u8], topic: &[u8]) -> bool
    ensures { result ≡ is_near filter.now topic.now }
{
    let mut filter = filter;
    let mut topic = topic;
    while let Some((byte, next_filter)) = filter.split_first() {
        let Some((other, next_topic)) = topic.split_first() else {
            return true;
        };
        if *byte == *other {
            topic = next_topic;
        } else if *byte == b'+' {
            topic = past_level(topic);
        } else {
            return *byte == b'#';
        }
        filter = next_filter;
    }
    topic.is_empty()
}

// What follows the first level of a topic.
fn past_level(topic: &[u8]) -> &[u8]
    ensures { result.now ≡ after_level topic.now }
{
    let mut topic = topic;
    while let Some((byte, others)) = topic.split_first() {
        if *byte == b'/' {
            return topic;
        }
        topic = others;
    }
    topic
}
