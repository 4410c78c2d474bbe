//! The requests of a session about each Topic Filter (MQTT 5.0, sections 3.8 to 3.10).
ghost use Rattle.std.specs.Prelude.{◌≡◌, ◌==◌, nat_eq, ℕ, List, Some, None, cond, length, OnOk, IfOk};
ghost use Rattle.std.specs.List.{sum_by};
ghost use Rattle.std.specs.Option.{option_or};
ghost use Rattle.std.specs.Str.{bytes_eq};
ghost use Rattle.indexmap.specs.IndexMap.{get, get_by_text, IsUnique};
ghost use Rattle.mq_rules.specs.Notes.{received_subscription, sent_grant};
ghost use Rattle.mq_rules.specs.FurtherSubscriptions.{subscribed_each};
ghost use Rattle.mq_rules.specs.Weights.{in_word};
ghost use Rattle.mq_subscriptions.specs.Burden.{at_least_one};
ghost use Rattle.mq_subscriptions.specs.Deletings as deletings;

use crate::awaited::REFUSING;
use crate::filters::copy_of;
use indexmap::IndexMap;
use mq_rules::{FilterList, Memory, Note, NotedFilter, PacketFields};
use std::alloc::Global;
use std::marker::Model;

/// What is known of a Topic Filter.
#[derive(Clone, Copy)]
pub struct FilterState {
    /// The position of the last SUBSCRIBE or UNSUBSCRIBE that has it.
    pub at: u32,
    /// Whether that is a SUBSCRIBE, and its SUBACK grants the filter.
    pub granted: bool,
    /// At how many places SUBSCRIBEs have it without being refused.
    pub places: u64,
}

/// A SUBSCRIBE that waits for its SUBACK.
#[derive(Drop)]
pub struct Subscribing {
    at: u32,
    filters: FilterList,
}

impl Model for Subscribing {
    ghost use Rattle.mq_subscriptions.specs.Deletings.{Subscribes};

    ghost Value = { Subscribes };

    ghost view = { λ w. record { at = w.at; filters = w.filters } };
}

// ---- a filter

// What is known of a filter.
fn state_of(states: &IndexMap<String, FilterState>, filter: &str) -> Option<FilterState>
    ensures { result ≡ get_by_text states.now filter.now }
{
    match states.get(filter) {
        Some(state) => Some(*state),
        None => None,
    }
}

/// Whether the last request about a filter is the one at this position.
pub fn is_last(states: &IndexMap<String, FilterState>, filter: &str, at: u32) -> bool
    ensures { result ≡ deletings.is_last at (get_by_text states.now filter.now) }
{
    match state_of(states, filter) {
        Some(state) => state.at == at,
        None => false,
    }
}

/// Whether some SUBSCRIBE has a filter at a place that isn't refused.
pub fn stands(states: &IndexMap<String, FilterState>, filter: &str) -> bool
    ensures { result ≡ deletings.stands (get_by_text states.now filter.now) }
{
    match state_of(states, filter) {
        Some(state) => state.places > 0,
        None => false,
    }
}

// Whether a subscription to it stands.
fn is_granted(state: Option<FilterState>) -> bool
    ensures { result ≡ deletings.is_granted state }
{
    match state {
        Some(state) => state.granted,
        None => false,
    }
}

// What is known of a filter with a request at this position that has it. A number that doesn't fit
// is more than there is memory for.
fn asked_at(at: u32, more: u64, old: Option<FilterState>) -> Result<FilterState, Memory>
    ensures { IfOk result (λ state. state ≡ deletings.asked_at at more old) }
{
    let places = match old {
        Some(state) => state.places,
        None => 0,
    };
    let Some(places) = more.checked_add(places) else {
        return Err(Memory);
    };
    Ok(FilterState {
        at,
        granted: false,
        places,
    })
}

// Keeps what is known of a filter.
fn put(
    alloc: Global,
    states: &mut IndexMap<String, FilterState>,
    filter: &str,
    state: FilterState,
) -> Result<(), Memory>
    ensures { OnOk result ((f : List ℕ) → get_by_text states.new f ≡ cond (bytes_eq f filter.now) (Some state) (get_by_text states.old f)) }
{
    let key = copy_of(alloc, filter)?;
    states.insert(key, state)?;
    Ok(())
}

// A request at this position has a filter.
fn ask(
    alloc: Global,
    states: &mut IndexMap<String, FilterState>,
    at: u32,
    more: u64,
    filter: &str,
) -> Result<(), Memory>
    ensures { OnOk result ((f : List ℕ) → get_by_text states.new f ≡ deletings.asked_once at more filter.now f (get_by_text states.old f)) }
{
    let state = asked_at(at, more, state_of(states, filter))?;
    put(alloc, states, filter, state)
}

// A SUBSCRIBE at this position has these filters.
fn ask_each(
    alloc: Global,
    states: &mut IndexMap<String, FilterState>,
    at: u32,
    filters: &[NotedFilter],
) -> Result<(), Memory>
    ensures { OnOk result ((f : List ℕ) → get_by_text states.new f ≡ deletings.asked_each at 1 filters.now f (get_by_text states.old f)) }
{
    let mut filters = filters;
    while let Some((filter, next_filters)) = filters.split_first() {
        ask(alloc, states, at, 1, filter.filter.as_str())?;
        filters = next_filters;
    }
    Ok(())
}

/// An UNSUBSCRIBE at this position has these filters: whether a subscription stood to each, at its
/// first place alone.
///
/// # Errors
///
/// `Memory` if there is no memory for what is kept.
pub fn remove_each(
    alloc: Global,
    states: &mut IndexMap<String, FilterState>,
    at: u32,
    filters: &[NotedFilter],
) -> Result<Vec<bool>, Memory>
    ensures subscribed { IfOk result (λ subscribed. subscribed.items ≡ subscribed_each (λ f. deletings.is_granted (get_by_text states.old f)) filters.now) }
    ensures states { OnOk result ((f : List ℕ) → get_by_text states.new f ≡ deletings.asked_each at 0 filters.now f (get_by_text states.old f)) }
{
    let mut subscribed = Vec::new(alloc);
    let mut filters = filters;
    while let Some((filter, next_filters)) = filters.split_first() {
        let filter = filter.filter.as_str();
        subscribed.push(is_granted(state_of(states, filter)))?;
        ask(alloc, states, at, 0, filter)?;
        filters = next_filters;
    }
    Ok(subscribed)
}

// ---- Reason Codes

// What is known of a filter that has this Reason Code in the SUBACK of the SUBSCRIBE at this
// position.
fn coded(at: u32, code: u8, state: FilterState) -> FilterState
    ensures { result ≡ deletings.coded at code state }
{
    let refused = code >= REFUSING;
    FilterState {
        at: state.at,
        granted: if state.at == at {
            !refused
        } else {
            state.granted
        },
        places: state.places.saturating_sub(u64::from(refused)),
    }
}

// A filter has this Reason Code.
fn code_once(
    alloc: Global,
    states: &mut IndexMap<String, FilterState>,
    at: u32,
    filter: &str,
    code: u8,
) -> Result<(), Memory>
    ensures { OnOk result ((f : List ℕ) → get_by_text states.new f ≡ deletings.coded_once at filter.now code f (get_by_text states.old f)) }
{
    match state_of(states, filter) {
        Some(state) => put(alloc, states, filter, coded(at, code, state)),
        None => Ok(()),
    }
}

// These filters have these Reason Codes in the SUBACK of the SUBSCRIBE at this position.
fn code_each(
    alloc: Global,
    states: &mut IndexMap<String, FilterState>,
    at: u32,
    filters: &[NotedFilter],
    codes: &[u8],
) -> Result<(), Memory>
    ensures { OnOk result ((f : List ℕ) → get_by_text states.new f ≡ deletings.coded_each at filters.now codes.now f (get_by_text states.old f)) }
{
    let mut filters = filters;
    let mut codes = codes;
    while let Some((filter, next_filters)) = filters.split_first() {
        let Some((code, next_codes)) = codes.split_first() else {
            return Ok(());
        };
        code_once(alloc, states, at, filter.filter.as_str(), *code)?;
        filters = next_filters;
        codes = next_codes;
    }
    Ok(())
}

// ---- packets

/// Takes in a SUBACK, if the event sends one: the first SUBSCRIBE that waits under its identifier
/// has its Reason Codes.
///
/// # Errors
///
/// `Memory` if there is no memory for what is kept.
pub fn take_grant(
    alloc: Global,
    states: &mut IndexMap<String, FilterState>,
    waiting: &mut IndexMap<u16, Subscribing>,
    note: &Note,
) -> Result<(), Memory>
    ensures states { OnOk result ((f : List ℕ) → get_by_text states.new f ≡ deletings.state_coded (sent_grant note.now) (get nat_eq waiting.old) f (get_by_text states.old f)) }
    ensures waiting { OnOk result ((i : ℕ) → get nat_eq waiting.new i ≡ cond (deletings.answers_under i (sent_grant note.now)) None (get nat_eq waiting.old i)) }
{
    match note.sent_fields() {
        Some(PacketFields::Suback { identifier, codes }) => {
            answer(alloc, states, waiting, *identifier, codes.as_slice())
        }
        _ => Ok(()),
    }
}

// Takes in a SUBACK.
fn answer(
    alloc: Global,
    states: &mut IndexMap<String, FilterState>,
    waiting: &mut IndexMap<u16, Subscribing>,
    identifier: u16,
    codes: &[u8],
) -> Result<(), Memory>
    ensures states { OnOk result ((f : List ℕ) → get_by_text states.new f ≡ deletings.state_answered codes.now (get nat_eq waiting.old identifier) f (get_by_text states.old f)) }
    ensures waiting { OnOk result ((i : ℕ) → get nat_eq waiting.new i ≡ cond (i == identifier) None (get nat_eq waiting.old i)) }
{
    match waiting.swap_remove(&identifier) {
        Some(first) => code_each(alloc, states, first.at, first.filters.as_slice(), codes),
        None => Ok(()),
    }
}

/// Takes in a SUBSCRIBE, if the event at this position receives one. It waits, unless one under its
/// identifier does already.
///
/// # Errors
///
/// `Memory` if there is no memory for what is kept.
pub fn take_request(
    alloc: Global,
    states: &mut IndexMap<String, FilterState>,
    waiting: &mut IndexMap<u16, Subscribing>,
    at: u32,
    note: &Note,
) -> Result<(), Memory>
    ensures states { OnOk result ((f : List ℕ) → get_by_text states.new f ≡ deletings.state_asked at 1 (received_subscription note.now) f (get_by_text states.old f)) }
    ensures waiting { OnOk result ((i : ℕ) → get nat_eq waiting.new i ≡ option_or (get nat_eq waiting.old i) (cond (deletings.requests_under i (received_subscription note.now)) (deletings.subscribes_at at note.now) None)) }
{
    match note.received_fields() {
        Some(
            PacketFields::Subscribe {
                identifier,
                filters,
                ..
            },
        ) => {
            ask_each(alloc, states, at, filters.as_slice())?;
            wait(alloc, waiting, *identifier, at, filters)
        }
        _ => Ok(()),
    }
}

// A SUBSCRIBE waits, unless one under its identifier does already.
fn wait(
    alloc: Global,
    waiting: &mut IndexMap<u16, Subscribing>,
    identifier: u16,
    at: u32,
    filters: &FilterList,
) -> Result<(), Memory>
    ensures { OnOk result ((i : ℕ) → get nat_eq waiting.new i ≡ option_or (get nat_eq waiting.old i) (cond (i == identifier) (Some (record { at = at; filters = filters.now })) None)) }
{
    if waiting.contains_key(&identifier) {
        return Ok(());
    }
    let filters = filters.copy(alloc)?;
    waiting.insert(identifier, Subscribing { at, filters })?;
    Ok(())
}

impl Subscribing {
    // How much it counts: the entry in which it is, and the filters after the first.
    fn size(&self) -> usize
        ensures { result ≡ in_word (at_least_one (length self.now.filters)) }
    {
        self.filters.len().max(1)
    }
}

/// How much those that wait count together.
pub fn waiting_size(waiting: &IndexMap<u16, Subscribing>) -> usize
    ensures size { result ≡ in_word (sum_by (λ e. at_least_one (length e.1.filters)) waiting.now.entries) }
    ensures unique { IsUnique nat_eq waiting.now }
{
    let mut size = 0_usize;
    for (_identifier, first) in waiting.iter() {
        size = size.saturating_add(first.size());
    }
    size
}
