//! SUBSCRIBE packets that wait for their SUBACK (MQTT 5.0, sections 3.8 and 3.9).
ghost use Rattle.std.specs.Prelude.{◌≡◌, ◌+◌, ◌==◌, ◌&&◌, ◌||◌, ◌++◌, ◌∷◌, [], nat_eq, nat_le, ℕ, Bool, true, false, List, Some, None, cond, not, length, unwrap_or, OnOk, IfOk};
ghost use Rattle.std.specs.List.{list_any, sum_by, AllByRecursion};
ghost use Rattle.std.specs.Map.{keys_of};
ghost use Rattle.indexmap.specs.IndexMap.{values};
ghost use Rattle.mq_topic.specs.Matching.{matches as is_match};
ghost use Rattle.mq_rules.specs.Subscriptions.{Standing, granted};
ghost use Rattle.mq_rules.specs.Weights.{in_word};
ghost use Rattle.mq_filters.specs.Standings.{has_ceiling, allows};
ghost use Rattle.mq_subscriptions.specs.Standings.{Waits, waits_weight, first_code, other_codes, with_code, with_codes, under, waits_of, taken};

use indexmap::IndexMap;
use mq_filters::{StandingFilters, higher, raised_by};
use mq_rules::{Memory, NotedFilter, Text};
use std::alloc::Global;
use std::marker::Model;

/// The lowest Reason Code that refuses (MQTT 5.0, section 2.4).
pub const REFUSING: u8 = 0x80;

/// A Topic Filter of a SUBSCRIBE that waits, with the QoS that it asks for.
#[derive(Drop)]
struct Kept {
    filter: Text,
    ceiling: u8,
}

impl Model for Kept {
    ghost use Rattle.mq_rules.specs.Subscriptions.{Standing};

    ghost Value = { Standing };

    ghost view = { λ k. record { filter = k.filter; ceiling = k.ceiling } };
}

/// The filters of a SUBSCRIBE that waits.
#[derive(Drop)]
pub struct Request {
    filters: Vec<Kept>,
}

impl Model for Request {
    ghost use Rattle.std.specs.Prelude.{List};
    ghost use Rattle.mq_rules.specs.Subscriptions.{Standing};

    ghost Value = { List Standing };

    ghost view = { λ r. r.filters.items };
}

/// The SUBSCRIBEs that wait under one Packet Identifier. There is one, unless the client uses the
/// identifier again too early.
#[derive(Drop)]
pub struct Requests {
    first: Request,
    others: Vec<Request>,
}

impl Model for Requests {
    ghost use Rattle.std.specs.Prelude.{List, ◌∷◌};
    ghost use Rattle.mq_rules.specs.Subscriptions.{Standing};

    ghost Value = { List (List Standing) };

    ghost view = { λ r. r.first ∷ r.others.items };
}

/// The SUBSCRIBEs that wait for their SUBACK, by their Packet Identifiers.
pub struct Awaited {
    requests: IndexMap<u16, Requests>,
}

impl Model for Awaited {
    ghost use Rattle.std.specs.Prelude.{List};
    ghost use Rattle.mq_subscriptions.specs.Standings.{Waits, waits_of};

    ghost Value = { List Waits };

    ghost view = { λ a. waits_of a.requests.entries };
}

// As a derived one, but a call of its own.
impl Drop for Awaited {
    #[inline(never)]
    fn drop(self) {
        let Awaited {
            requests: _requests,
        } = self;
    }
}

// ---- filters

// Adds a filter.
fn add(alloc: Global, kept: &mut Vec<Kept>, filter: &str, ceiling: u8) -> Result<(), Memory>
    ensures { OnOk result (kept.new.items ≡ kept.old.items ++ (record { filter = filter.now; ceiling = ceiling } ∷ [])) }
{
    let filter = Text::of(alloc, filter)?;
    kept.push(Kept { filter, ceiling })?;
    Ok(())
}

// The filters of a SUBSCRIBE, with the QoS that each asks for.
fn asked_filters(alloc: Global, filters: &[NotedFilter]) -> Result<Vec<Kept>, Memory>
    ensures { IfOk result (λ kept. kept.items ≡ granted filters.now []) }
{
    let mut kept = Vec::new(alloc);
    let mut filters = filters;
    while let Some((filter, next_filters)) = filters.split_first() {
        add(alloc, &mut kept, filter.filter.as_str(), filter.options % 4)?;
        filters = next_filters;
    }
    Ok(kept)
}

// Adds a filter with its Reason Code, unless that refuses it. Without a code it keeps its ceiling.
fn add_granted(
    alloc: Global,
    settled: &mut StandingFilters,
    kept: &Kept,
    code: Option<u8>,
) -> Result<(), Memory>
    ensures { OnOk result ((among : List ℕ → Bool) (qos : ℕ) → list_any (allows among qos) settled.new ≡ (list_any (allows among qos) settled.old || list_any (allows among qos) (with_code kept.now code))) }
{
    match code {
        None => {
            settled.stand(alloc, kept.filter.as_str(), kept.ceiling)?;
            Ok(())
        }
        Some(code) => {
            if code >= REFUSING {
                return Ok(());
            }
            settled.stand(alloc, kept.filter.as_str(), code)?;
            Ok(())
        }
    }
}

/// The first of the Reason Codes that are left, if there is one, and the others.
pub fn next_code(codes: &[u8]) -> (Option<u8>, &[u8])
    ensures first { result.0 ≡ first_code codes.now }
    ensures others { result.1.now ≡ other_codes codes.now }
{
    match codes.split_first() {
        Some((code, others)) => (Some(*code), others),
        None => (None, codes),
    }
}

// Adds filters with their Reason Codes (MQTT 5.0, section 3.9.3).
fn settle(
    alloc: Global,
    settled: &mut StandingFilters,
    filters: &[Kept],
    codes: &[u8],
) -> Result<(), Memory>
    ensures { OnOk result ((among : List ℕ → Bool) (qos : ℕ) → list_any (allows among qos) settled.new ≡ (list_any (allows among qos) settled.old || list_any (allows among qos) (with_codes filters.now codes.now))) }
{
    let mut filters = filters;
    let mut codes = codes;
    while let Some((filter, next_filters)) = filters.split_first() {
        let (code, next_codes) = next_code(codes);
        add_granted(alloc, settled, filter, code)?;
        filters = next_filters;
        codes = next_codes;
    }
    Ok(())
}

// The greatest ceiling of the filters that match a topic.
fn ceiling_among(filters: &[Kept], topic: &str) -> Option<u8>
    ensures { (qos : ℕ) → has_ceiling (nat_le qos) result ≡ list_any (λ s. is_match s.filter topic.now && nat_le qos s.ceiling) filters.now }
{
    let mut best = None;
    for kept in filters {
        best = raised_by(best, kept.filter.as_str(), kept.ceiling, topic);
    }
    best
}

// ---- one SUBSCRIBE

impl Request {
    /// The filters of a SUBSCRIBE, with the QoS that each asks for.
    pub fn of(alloc: Global, filters: &[NotedFilter]) -> Result<Request, Memory>
        ensures { IfOk result (λ request. request ≡ granted filters.now []) }
    {
        let filters = asked_filters(alloc, filters)?;
        Ok(Request { filters })
    }

    // Settles its filters by the Reason Codes of its SUBACK.
    fn settle(
        &self,
        alloc: Global,
        settled: &mut StandingFilters,
        codes: &[u8],
    ) -> Result<(), Memory>
        ensures { OnOk result ((among : List ℕ → Bool) (qos : ℕ) → list_any (allows among qos) settled.new ≡ (list_any (allows among qos) settled.old || list_any (allows among qos) (with_codes self.now codes.now))) }
    {
        settle(alloc, settled, self.filters.as_slice(), codes)
    }

    // The greatest ceiling of its filters that match a topic.
    fn ceiling_for(&self, topic: &str) -> Option<u8>
        ensures { (qos : ℕ) → has_ceiling (nat_le qos) result ≡ list_any (λ s. is_match s.filter topic.now && nat_le qos s.ceiling) self.now }
    {
        ceiling_among(self.filters.as_slice(), topic)
    }

    // How much it counts: itself, and its filters.
    fn size(&self) -> usize
        ensures { result ≡ in_word (1 + length self.now) }
    {
        self.filters.len().saturating_add(1)
    }
}

// The greatest ceiling of the filters that match a topic, of these SUBSCRIBEs.
fn ceiling_of_all(requests: &[Request], topic: &str) -> Option<u8>
    ensures { (qos : ℕ) → has_ceiling (nat_le qos) result ≡ list_any (λ filters. list_any (λ s. is_match s.filter topic.now && nat_le qos s.ceiling) filters) requests.now }
{
    let mut best = None;
    for request in requests {
        best = higher(best, request.ceiling_for(topic));
    }
    best
}

// Settles all by the Reason Codes of one SUBACK.
fn settle_each(
    alloc: Global,
    settled: &mut StandingFilters,
    requests: &[Request],
    codes: &[u8],
) -> Result<(), Memory>
    ensures { OnOk result ((among : List ℕ → Bool) (qos : ℕ) → list_any (allows among qos) settled.new ≡ (list_any (allows among qos) settled.old || list_any (λ filters. list_any (allows among qos) (with_codes filters codes.now)) requests.now)) }
{
    let mut requests = requests;
    while let Some((request, next_requests)) = requests.split_first() {
        request.settle(alloc, settled, codes)?;
        requests = next_requests;
    }
    Ok(())
}

// How much these SUBSCRIBEs count together, each with its filters.
fn sizes_of(requests: &[Request]) -> usize
    ensures { result ≡ in_word (sum_by (λ filters. 1 + length filters) requests.now) }
{
    let mut size = 0_usize;
    for request in requests {
        size = size.saturating_add(request.size());
    }
    size
}

// ---- those under one identifier

impl Requests {
    /// Settles the filters of each by the Reason Codes of their SUBACK.
    pub fn settle(
        &self,
        alloc: Global,
        settled: &mut StandingFilters,
        codes: &[u8],
    ) -> Result<(), Memory>
        ensures { OnOk result ((among : List ℕ → Bool) (qos : ℕ) → list_any (allows among qos) settled.new ≡ (list_any (allows among qos) settled.old || list_any (λ filters. list_any (allows among qos) (with_codes filters codes.now)) self.now)) }
    {
        self.first.settle(alloc, settled, codes)?;
        settle_each(alloc, settled, self.others.as_slice(), codes)?;
        Ok(())
    }

    // Settles filters for which no SUBACK comes any more.
    #[tactic(auto, using(crate::proofs::KeepLaws::codes_none))]
    fn settle_as_asked(&self, alloc: Global, settled: &mut StandingFilters) -> Result<(), Memory>
        ensures { OnOk result ((among : List ℕ → Bool) (qos : ℕ) → list_any (allows among qos) settled.new ≡ (list_any (allows among qos) settled.old || list_any (λ filters. list_any (allows among qos) filters) self.now)) }
    {
        self.settle(alloc, settled, &[])
    }

    // The greatest ceiling of their filters that match a topic.
    fn ceiling_for(&self, topic: &str) -> Option<u8>
        ensures { (qos : ℕ) → has_ceiling (nat_le qos) result ≡ list_any (λ filters. list_any (λ s. is_match s.filter topic.now && nat_le qos s.ceiling) filters) self.now }
    {
        higher(
            self.first.ceiling_for(topic),
            ceiling_of_all(self.others.as_slice(), topic),
        )
    }

    // How much they count, with the entry of their identifier.
    fn size(&self) -> usize
        ensures { result ≡ in_word (sum_by (λ filters. 1 + length filters) self.now) }
    {
        self.first
            .size()
            .saturating_add(sizes_of(self.others.as_slice()))
    }
}

// One more under an identifier.
fn with_request(
    alloc: Global,
    earlier: Option<Requests>,
    request: Request,
) -> Result<Requests, Memory>
    ensures { IfOk result (λ all. all ≡ unwrap_or earlier [] ++ (request ∷ [])) }
{
    match earlier {
        None => Ok(Requests {
            first: request,
            others: Vec::new(alloc),
        }),
        Some(mut requests) => {
            requests.others.push(request)?;
            Ok(requests)
        }
    }
}

// Takes out those under an identifier.
fn take(requests: &mut IndexMap<u16, Requests>, identifier: u16) -> Option<Requests>
    ensures any { (t : Waits → Bool) → list_any t (waits_of requests.old.entries) ≡ (list_any t (taken identifier result) || list_any t (waits_of requests.new.entries)) }
    ensures sums { (weigh : Waits → ℕ) → sum_by weigh (waits_of requests.old.entries) ≡ sum_by weigh (taken identifier result) + sum_by weigh (waits_of requests.new.entries) }
    ensures apart { AllByRecursion (λ k. nat_eq identifier k ≡ false) (keys_of requests.new.entries) }
{
    requests.swap_remove(&identifier)
}

// ---- those of a map

// Settles the filters of all SUBSCRIBEs that wait, for which no SUBACK comes any more.
fn settle_values(
    alloc: Global,
    settled: &mut StandingFilters,
    all: &IndexMap<u16, Requests>,
) -> Result<(), Memory>
    ensures { OnOk result ((among : List ℕ → Bool) (qos : ℕ) → list_any (allows among qos) settled.new ≡ (list_any (allows among qos) settled.old || list_any (λ requests. list_any (λ filters. list_any (allows among qos) filters) requests) (values all.now))) }
{
    for requests in all.values() {
        requests.settle_as_asked(alloc, settled)?;
    }
    Ok(())
}

// The greatest ceiling of the filters that match a topic, of all SUBSCRIBEs that wait.
fn ceiling_of_values(all: &IndexMap<u16, Requests>, topic: &str) -> Option<u8>
    ensures { (qos : ℕ) → has_ceiling (nat_le qos) result ≡ list_any (λ requests. list_any (λ filters. list_any (λ s. is_match s.filter topic.now && nat_le qos s.ceiling) filters) requests) (values all.now) }
{
    let mut best = None;
    for requests in all.values() {
        best = higher(best, requests.ceiling_for(topic));
    }
    best
}

// How much all SUBSCRIBEs that wait count together, each with its filters.
fn values_size(all: &IndexMap<u16, Requests>) -> usize
    ensures { result ≡ in_word (sum_by (λ requests. sum_by (λ filters. 1 + length filters) requests) (values all.now)) }
{
    let mut size = 0_usize;
    for requests in all.values() {
        size = size.saturating_add(requests.size());
    }
    size
}

// ---- all that wait

impl Awaited {
    /// None waits.
    pub fn new(alloc: Global) -> Self
        ensures { result ≡ [] }
    {
        Awaited {
            requests: IndexMap::new(alloc),
        }
    }

    /// Takes in a SUBSCRIBE.
    pub fn wait(&mut self, alloc: Global, identifier: u16, request: Request) -> Result<(), Memory>
        ensures any { OnOk result ((t : Waits → Bool) → list_any t self.new ≡ (t (record { identifier = identifier; filters = request }) || list_any t self.old)) }
        ensures sums { OnOk result ((weigh : Waits → ℕ) → sum_by weigh self.new ≡ weigh (record { identifier = identifier; filters = request }) + sum_by weigh self.old) }
    {
        let earlier = take(&mut self.requests, identifier);
        let requests = with_request(alloc, earlier, request)?;
        self.requests.insert(identifier, requests)?;
        Ok(())
    }

    /// Takes out those that a SUBACK answers.
    pub fn answer(&mut self, identifier: u16) -> Option<Requests>
        ensures taken { (t : List Standing → Bool) → list_any t (unwrap_or result []) ≡ list_any (λ w. (identifier == w.identifier) && t w.filters) self.old }
        ensures left { (t : Waits → Bool) → list_any t self.new ≡ list_any (λ w. not (identifier == w.identifier) && t w) self.old }
        ensures sums { (weigh : Waits → ℕ) → sum_by weigh self.new ≡ sum_by (λ w. cond (identifier == w.identifier) 0 (weigh w)) self.old }
    {
        take(&mut self.requests, identifier)
    }

    /// Settles the filters of all, since no SUBACK comes for them any more.
    pub fn settle_all(&self, alloc: Global, settled: &mut StandingFilters) -> Result<(), Memory>
        ensures { OnOk result ((among : List ℕ → Bool) (qos : ℕ) → list_any (allows among qos) settled.new ≡ (list_any (allows among qos) settled.old || list_any (λ w. list_any (allows among qos) w.filters) self.now)) }
    {
        settle_values(alloc, settled, &self.requests)?;
        Ok(())
    }

    /// The greatest ceiling of the filters that match a topic.
    pub fn ceiling_for(&self, topic: &str) -> Option<u8>
        ensures { (qos : ℕ) → has_ceiling (nat_le qos) result ≡ list_any (λ w. list_any (λ s. is_match s.filter topic.now && nat_le qos s.ceiling) w.filters) self.now }
    {
        ceiling_of_values(&self.requests, topic)
    }

    /// Whether none waits.
    #[inline]
    pub fn is_empty(&self) -> bool
        ensures { result ≡ true → self.now ≡ [] }
    {
        self.requests.is_empty()
    }

    /// How many SUBSCRIBEs wait, and how many filters they have together.
    pub fn size(&self) -> usize
        ensures { result ≡ in_word (sum_by waits_weight self.now) }
    {
        values_size(&self.requests)
    }
}
