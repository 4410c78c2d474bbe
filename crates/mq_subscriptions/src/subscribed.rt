//! The subscriptions of a session, by what a delivery asks of those that match its topic (MQTT 5.0,
//! sections 3.3.4, 3.8.3.1, 3.8.4 and 4.8.2).
ghost use Rattle.std.specs.Prelude.{◌≡◌, ◌≤◌, ◌+◌, ◌*◌, ◌/◌, ◌%◌, ◌==◌, ◌&&◌, ◌||◌, ◌∷◌, [], nat_eq, nat_le, ℕ, Bool, List, Option, Some, None, is_some, unwrap_or, true, false, cond, not, length, OnOk};
ghost use Rattle.std.specs.List.{list_any, sum_by};
ghost use Rattle.std.specs.Option.{option_or};
ghost use Rattle.std.specs.Set.{distinct_count};
ghost use Rattle.std.specs.Str.{bytes_eq};
ghost use Rattle.indexmap.specs.IndexMap.{get, IsUnique};
ghost use Rattle.mq_topic.specs.Matching.{matches as is_match};
ghost use Rattle.mq_rules.specs.declared.role.Tested.{Tested as TheTested};
ghost use Rattle.mq_rules.specs.declared.fate.Fate.{Fate as TheFate};
ghost use Rattle.mq_rules.specs.declared.note.Seen.{Seen};
ghost use Rattle.mq_rules.specs.Words.{is_some_and, is_id};
ghost use Rattle.mq_rules.specs.Notes.{received_subscription, sent_grant};
ghost use Rattle.mq_rules.specs.Subscriptions.{requested};
ghost use Rattle.mq_rules.specs.MatchingSubscriptions as matching;
ghost use Rattle.mq_rules.specs.MatchingSubscriptions.{subscribed_to, subscribed_by};
ghost use Rattle.mq_rules.specs.Weights.{in_word};
ghost use Rattle.mq_rules.specs.Wishes as wishes;
ghost use Rattle.mq_filters.specs.Standings.{has_ceiling, allows};
ghost use Rattle.mq_subscriptions.specs.Burden.{at_least_one, asked_filters, subscribed_count, identified_count};
ghost use Rattle.mq_subscriptions.specs.Matchings.{Question, Kind, passing, bearing, serves, subscribed_one, granted_to, some_waits, identifier_in, settled_asked, settled_granted, waiting_packet, least, matches_kept};
ghost use Rattle.mq_subscriptions.specs.Subscribings.{set_of, says, TakesInEvent, AreKept, AreMatched, AreCounted};
ghost use Rattle.mq_subscriptions.specs.Weights.{subscriptions_weigh};

use crate::awaited::{REFUSING, next_code};
use crate::filters::goes_on;
use indexmap::IndexMap;
use mq_filters::{StandingFilters, higher, is_within};
use mq_rules::{
    Fate, FilterList, Memory, Note, NotedFilter, PacketFields, is_share, shared_filter,
};
use mq_topic::matches;
use std::alloc::Global;
use std::marker::Model;

/// The subscriptions that count whatever comes, by what a delivery asks of them.
#[derive(Drop)]
struct Settled {
    /// All.
    any: StandingFilters,
    /// Those without a Subscription Identifier.
    unidentified: StandingFilters,
    /// Those for which what is sent may have RETAIN 1.
    retained: StandingFilters,
    /// Shared ones that ask for the retained messages that aren't sent for them.
    in_vain: StandingFilters,
    /// Those that have each Subscription Identifier.
    identified: IndexMap<u32, StandingFilters>,
}

/// A SUBSCRIBE that waits for its SUBACK.
#[derive(Drop)]
struct Asking {
    filters: FilterList,
    /// The Subscription Identifier, if it has one.
    identifier: Option<u32>,
}

impl Model for Asking {
    ghost use Rattle.mq_subscriptions.specs.Matchings.{Asks};

    ghost Value = { Asks };

    ghost view = { λ a. record { filters = a.filters; identifier = a.identifier } };
}

/// What the subscriptions that match a topic say.
#[derive(Clone, Copy)]
pub struct Matched {
    /// The greatest QoS of what may be sent for them, 0 to 2; none if none matches.
    pub ceiling: Option<u8>,
    /// Whether one has no Subscription Identifier.
    pub unidentified: bool,
    /// Whether what is sent for one may have RETAIN 1.
    pub retained: bool,
    /// Whether one is shared and asks for retained messages.
    pub in_vain: bool,
}

// Whether one of two is so.
fn either(first: bool, second: bool) -> bool
    ensures { result ≡ (first || second) }
{
    first || second
}

impl Matched {
    // With a subscription of a SUBSCRIBE that waits, if it matches the topic.
    fn with_filter(self, identifier: Option<u32>, filter: &NotedFilter, topic: &str) -> Matched
        ensures { (question : Question) (qos : ℕ) → says result question qos ≡ (says self question qos || serves (passing question) (λ f. is_match f topic.now) (least question qos) (subscribed_to identifier filter.now (requested filter.now))) }
    {
        if !is_about(filter.filter.as_str(), topic) {
            return self;
        }
        let unidentified = identifier.is_none();
        let retained = may_be_retained(filter);
        let in_vain = asks_in_vain(filter);
        Matched {
            ceiling: higher(self.ceiling, Some(filter.options % 4)),
            unidentified: either(self.unidentified, unidentified),
            retained: either(self.retained, retained),
            in_vain: either(self.in_vain, in_vain),
        }
    }

    // With the subscriptions of a SUBSCRIBE that waits.
    fn with_each(self, identifier: Option<u32>, filters: &[NotedFilter], topic: &str) -> Matched
        ensures { (question : Question) (qos : ℕ) → says result question qos ≡ (says self question qos || list_any (serves (passing question) (λ f. is_match f topic.now) (least question qos)) (subscribed_by identifier filters.now [])) }
    {
        let mut matched = self;
        let mut filters = filters;
        while let Some((filter, next_filters)) = filters.split_first() {
            matched = matched.with_filter(identifier, filter, topic);
            filters = next_filters;
        }
        matched
    }

    // With those of all SUBSCRIBEs that wait.
    fn with_all(self, waiting: &IndexMap<u16, Asking>, topic: &str) -> Matched
        ensures says { (question : Question) (qos : ℕ) → says result question qos ≡ (says self question qos || some_waits (serves (passing question) (λ f. is_match f topic.now) (least question qos)) waiting.now.entries) }
        ensures unique { IsUnique nat_eq waiting.now }
    {
        let mut matched = self;
        for (_identifier, asking) in waiting.iter() {
            matched = matched.with_each(asking.identifier, asking.filters.as_slice(), topic);
        }
        matched
    }
}

/// The subscriptions of a session. Each counts for the rest of the session, also after it was
/// replaced or given up.
#[derive(Drop)]
pub struct Subscriptions {
    settled: Settled,
    /// The first SUBSCRIBE of each identifier that isn't answered on the open connection.
    waiting: IndexMap<u16, Asking>,
}

// ---- one subscription

// Whether a filter matches a topic, or that of a shared subscription after its name does.
fn is_about(filter: &str, topic: &str) -> bool
    ensures { result ≡ (is_match filter.now topic.now || (wishes.is_share filter.now && is_match (wishes.shared_filter filter.now) topic.now)) }
{
    matches(filter, topic) || (is_share(filter) && matches(shared_filter(filter), topic))
}

// Whether its options let what is forwarded keep its RETAIN flag (MQTT 5.0, section 3.8.3.1).
fn is_as_published(options: u8) -> bool
    ensures { result ≡ (options / 8 % 2 == 1) }
{
    options / 8 % 2 == 1
}

// Whether its options ask for retained messages at the time of the SUBSCRIBE.
fn asks_for_retained(options: u8) -> bool
    ensures { result ≡ not (options / 16 % 4 == 2) }
{
    options / 16 % 4 != 2
}

// Whether what is sent for it may have RETAIN 1.
fn may_be_retained(filter: &NotedFilter) -> bool
    ensures { (identifier : Option ℕ) (qos : ℕ) → result ≡ matching.may_be_retained (subscribed_to identifier filter.now qos) }
{
    is_as_published(filter.options)
        || (!is_share(filter.filter.as_str()) && asks_for_retained(filter.options))
}

// Whether it is shared, and asks for the retained messages that aren't sent for it.
fn asks_in_vain(filter: &NotedFilter) -> bool
    ensures { (identifier : Option ℕ) (qos : ℕ) → result ≡ matching.asks_in_vain (subscribed_to identifier filter.now qos) }
{
    is_share(filter.filter.as_str()) && asks_for_retained(filter.options)
}

// Adds a filter to a set, if it belongs there. That of a shared subscription may stand for itself
// or without its name.
fn stand_if(
    alloc: Global,
    belongs: bool,
    set: &mut StandingFilters,
    filter: &str,
    ceiling: u8,
) -> Result<(), Memory>
    ensures { OnOk result ((among : List ℕ → Bool) (qos : ℕ) → list_any (allows among qos) set.new ≡ (list_any (allows among qos) set.old || (belongs && ((among filter.now || (wishes.is_share filter.now && among (wishes.shared_filter filter.now))) && nat_le qos ceiling)))) }
{
    if !belongs {
        return Ok(());
    }
    set.stand(alloc, filter, ceiling)?;
    if !is_share(filter) {
        return Ok(());
    }
    set.stand(alloc, shared_filter(filter), ceiling)?;
    Ok(())
}

// Adds a filter to the set under its Subscription Identifier, if there is one.
fn stand_under(
    alloc: Global,
    identifier: Option<u32>,
    sets: &mut IndexMap<u32, StandingFilters>,
    filter: &str,
    ceiling: u8,
) -> Result<(), Memory>
    ensures { OnOk result ((i : ℕ) (among : List ℕ → Bool) (qos : ℕ) → list_any (allows among qos) (unwrap_or (get nat_eq sets.new i) []) ≡ (list_any (allows among qos) (unwrap_or (get nat_eq sets.old i) []) || (is_id i identifier && ((among filter.now || (wishes.is_share filter.now && among (wishes.shared_filter filter.now))) && nat_le qos ceiling)))) }
{
    let Some(identifier) = identifier else {
        return Ok(());
    };
    if let Some(set) = sets.get_mut(&identifier) {
        return stand_if(alloc, true, set, filter, ceiling);
    }
    let mut set = StandingFilters::new(alloc);
    stand_if(alloc, true, &mut set, filter, ceiling)?;
    sets.insert(identifier, set)?;
    Ok(())
}

// How many filters there are under all Subscription Identifiers.
fn sets_size(sets: &IndexMap<u32, StandingFilters>) -> usize
    ensures size { result ≡ in_word (sum_by (λ e. length e.1) sets.now.entries) }
    ensures unique { IsUnique nat_eq sets.now }
    ensures different { AreCounted sets.now.entries }
{
    let mut size = 0_usize;
    for (_identifier, set) in sets.iter() {
        size = size.saturating_add(set.len());
    }
    size
}

impl Settled {
    // None.
    #[tactic(auto, using(crate::proofs::MatchingLaws::none_stands))]
    fn new(alloc: Global) -> Self
        ensures none { (kind : Kind) → set_of result kind ≡ [] }
        ensures empty { result.identified.entries ≡ [] }
    {
        Settled {
            any: StandingFilters::new(alloc),
            unidentified: StandingFilters::new(alloc),
            retained: StandingFilters::new(alloc),
            in_vain: StandingFilters::new(alloc),
            identified: IndexMap::new(alloc),
        }
    }

    // Adds a subscription.
    fn add(
        &mut self,
        alloc: Global,
        identifier: Option<u32>,
        filter: &NotedFilter,
        qos: u8,
    ) -> Result<(), Memory>
        ensures { OnOk result ((kind : Kind) (among : List ℕ → Bool) (least : ℕ) → list_any (allows among least) (set_of self.new kind) ≡ (list_any (allows among least) (set_of self.old kind) || list_any (serves kind among least) (subscribed_to identifier filter.now qos ∷ []))) }
    {
        let text = filter.filter.as_str();
        stand_if(alloc, true, &mut self.any, text, qos)?;
        let unidentified = identifier.is_none();
        stand_if(alloc, unidentified, &mut self.unidentified, text, qos)?;
        let retained = may_be_retained(filter);
        stand_if(alloc, retained, &mut self.retained, text, qos)?;
        let in_vain = asks_in_vain(filter);
        stand_if(alloc, in_vain, &mut self.in_vain, text, qos)?;
        stand_under(alloc, identifier, &mut self.identified, text, qos)?;
        Ok(())
    }

    // Adds a subscription with its Reason Code, unless that refuses it. Without a code it may have
    // the QoS that it asks for.
    fn add_granted(
        &mut self,
        alloc: Global,
        identifier: Option<u32>,
        filter: &NotedFilter,
        code: Option<u8>,
    ) -> Result<(), Memory>
        ensures { OnOk result ((kind : Kind) (among : List ℕ → Bool) (least : ℕ) → list_any (allows among least) (set_of self.new kind) ≡ (list_any (allows among least) (set_of self.old kind) || list_any (serves kind among least) (subscribed_one identifier filter.now code))) }
    {
        match code {
            None => self.add(alloc, identifier, filter, filter.options % 4),
            Some(code) => {
                if code >= REFUSING {
                    return Ok(());
                }
                self.add(alloc, identifier, filter, code)
            }
        }
    }

    // Adds the subscriptions of a SUBSCRIBE with their Reason Codes (MQTT 5.0, section 3.9.3).
    #[tactic(auto, using(crate::proofs::MatchingLaws::one_more))]
    fn add_each(
        &mut self,
        alloc: Global,
        identifier: Option<u32>,
        filters: &[NotedFilter],
        codes: &[u8],
    ) -> Result<(), Memory>
        ensures { OnOk result ((kind : Kind) (among : List ℕ → Bool) (least : ℕ) → list_any (allows among least) (set_of self.new kind) ≡ (list_any (allows among least) (set_of self.old kind) || list_any (serves kind among least) (subscribed_by identifier filters.now codes.now))) }
    {
        let mut filters = filters;
        let mut codes = codes;
        while let Some((filter, next_filters)) = filters.split_first() {
            let (code, next_codes) = next_code(codes);
            self.add_granted(alloc, identifier, filter, code)?;
            filters = next_filters;
            codes = next_codes;
        }
        Ok(())
    }

    // Adds those of SUBSCRIBEs for which no SUBACK comes any more.
    fn add_all(&mut self, alloc: Global, waiting: &IndexMap<u16, Asking>) -> Result<(), Memory>
        ensures settled { OnOk result ((kind : Kind) (among : List ℕ → Bool) (least : ℕ) → list_any (allows among least) (set_of self.new kind) ≡ (list_any (allows among least) (set_of self.old kind) || some_waits (serves kind among least) waiting.now.entries)) }
        ensures unique { IsUnique nat_eq waiting.now }
    {
        for (_identifier, asking) in waiting.iter() {
            self.add_each(alloc, asking.identifier, asking.filters.as_slice(), &[])?;
        }
        Ok(())
    }

    // What those that match a topic say.
    fn matched(&self, alloc: Global, topic: &str) -> Matched
        ensures { (question : Question) (qos : ℕ) → says result question qos ≡ list_any (λ s. is_match s.filter topic.now && nat_le (least question qos) s.ceiling) (set_of self.now (passing question)) }
    {
        Matched {
            ceiling: self.any.ceiling_always(alloc, topic),
            unidentified: is_within(self.unidentified.ceiling_always(alloc, topic), 0),
            retained: is_within(self.retained.ceiling_always(alloc, topic), 0),
            in_vain: is_within(self.in_vain.ceiling_always(alloc, topic), 0),
        }
    }

    // Whether one that has this Subscription Identifier matches a topic.
    fn has_named(&self, alloc: Global, topic: &str, identifier: u32) -> bool
        ensures { result ≡ list_any (λ s. is_match s.filter topic.now && nat_le 0 s.ceiling) (set_of self.now (bearing identifier)) }
    {
        match self.identified.get(&identifier) {
            Some(set) => is_within(set.ceiling_always(alloc, topic), 0),
            None => false,
        }
    }

    // How many filters there are, without those under Subscription Identifiers.
    fn size(&self) -> usize
        ensures size { result ≡ in_word ((length self.now.any + length self.now.unidentified) + (length self.now.retained + length self.now.in_vain)) }
        ensures different { (filters : List (List ℕ)) → ((question : Question) (f : List ℕ) → list_any (λ s. bytes_eq f s.filter) (set_of self.now (passing question)) ≡ true → list_any (bytes_eq f) filters ≡ true) → (length self.now.any + length self.now.unidentified) + (length self.now.retained + length self.now.in_vain) ≤ 4 * distinct_count bytes_eq filters }
    {
        let first = self.any.len().saturating_add(self.unidentified.len());
        let second = self.retained.len().saturating_add(self.in_vain.len());
        first.saturating_add(second)
    }
}

// ---- SUBSCRIBEs that wait

// Whether one of the filters matches a topic.
fn any_about(filters: &[NotedFilter], topic: &str) -> bool
    ensures { result ≡ list_any (λ g. is_match g.filter topic.now || (wishes.is_share g.filter && is_match (wishes.shared_filter g.filter) topic.now)) filters.now }
{
    filters
        .iter()
        .any(|filter| is_about(filter.filter.as_str(), topic))
}

// Whether there is a Subscription Identifier, and it is this one.
fn is_this(identifier: u32, own: Option<u32>) -> bool
    ensures { result ≡ is_id identifier own }
{
    match own {
        Some(own) => identifier == own,
        None => false,
    }
}

// Whether a SUBSCRIBE has this Subscription Identifier, and a filter that matches a topic.
fn asks_named(own: Option<u32>, filters: &[NotedFilter], topic: &str, identifier: u32) -> bool
    ensures { result ≡ list_any (serves (bearing identifier) (λ f. is_match f topic.now) 0) (subscribed_by own filters.now []) }
{
    is_this(identifier, own) && any_about(filters, topic)
}

impl Asking {
    // How much it counts: the entry in which it is, and the filters after the first.
    fn size(&self) -> usize
        ensures { result ≡ in_word (at_least_one (length self.now.filters)) }
    {
        self.filters.len().max(1)
    }
}

// Whether one of those that wait has this Subscription Identifier, and a filter that matches.
fn any_named(waiting: &IndexMap<u16, Asking>, topic: &str, identifier: u32) -> bool
    ensures { result ≡ some_waits (serves (bearing identifier) (λ f. is_match f topic.now) 0) waiting.now.entries }
{
    for (_identifier, asking) in waiting.iter() {
        if asks_named(
            asking.identifier,
            asking.filters.as_slice(),
            topic,
            identifier,
        ) {
            return true;
        }
    }
    false
}

// How much those that wait count together.
fn waiting_size(waiting: &IndexMap<u16, Asking>) -> usize
    ensures size { result ≡ in_word (sum_by (λ e. at_least_one (length e.1.filters)) waiting.now.entries) }
    ensures unique { IsUnique nat_eq waiting.now }
{
    let mut size = 0_usize;
    for (_identifier, asking) in waiting.iter() {
        size = size.saturating_add(asking.size());
    }
    size
}

// A SUBSCRIBE waits, if none under its identifier does.
fn wait(
    alloc: Global,
    waiting: &mut IndexMap<u16, Asking>,
    identifier: u16,
    filters: &FilterList,
    subscription_identifier: Option<u32>,
) -> Result<(), Memory>
    ensures { OnOk result ((i : ℕ) → get nat_eq waiting.new i ≡ option_or (get nat_eq waiting.old i) (cond (i == identifier) (Some (record { filters = filters.now; identifier = subscription_identifier })) None)) }
{
    if waiting.contains_key(&identifier) {
        return Ok(());
    }
    let filters = filters.copy(alloc)?;
    let asking = Asking {
        filters,
        identifier: subscription_identifier,
    };
    waiting.insert(identifier, asking)?;
    Ok(())
}

// Takes in a SUBSCRIBE: it waits. Where one under its identifier waits already no SUBACK answers
// it, so it counts as it asks.
fn ask(
    alloc: Global,
    settled: &mut Settled,
    waiting: &mut IndexMap<u16, Asking>,
    identifier: u16,
    filters: &FilterList,
    subscription_identifier: Option<u32>,
) -> Result<(), Memory>
    ensures settled { OnOk result ((kind : Kind) (among : List ℕ → Bool) (least : ℕ) → list_any (allows among least) (set_of settled.new kind) ≡ (list_any (allows among least) (set_of settled.old kind) || (is_some (get nat_eq waiting.old identifier) && list_any (serves kind among least) (subscribed_by subscription_identifier filters.now [])))) }
    ensures waiting { OnOk result ((i : ℕ) → get nat_eq waiting.new i ≡ option_or (get nat_eq waiting.old i) (cond (i == identifier) (Some (record { filters = filters.now; identifier = subscription_identifier })) None)) }
{
    if waiting.contains_key(&identifier) {
        settled.add_each(alloc, subscription_identifier, filters.as_slice(), &[])?;
        return Ok(());
    }
    wait(alloc, waiting, identifier, filters, subscription_identifier)?;
    Ok(())
}

// Takes in a SUBACK: what it answers waits no more.
fn answer(
    alloc: Global,
    settled: &mut Settled,
    waiting: &mut IndexMap<u16, Asking>,
    identifier: u16,
    codes: &[u8],
) -> Result<(), Memory>
    ensures settled { OnOk result ((kind : Kind) (among : List ℕ → Bool) (least : ℕ) → list_any (allows among least) (set_of settled.new kind) ≡ (list_any (allows among least) (set_of settled.old kind) || is_some_and (λ w. list_any (serves kind among least) (granted_to codes.now w)) (get nat_eq waiting.old identifier))) }
    ensures waiting { OnOk result ((i : ℕ) → get nat_eq waiting.new i ≡ cond (i == identifier) None (get nat_eq waiting.old i)) }
{
    match waiting.swap_remove(&identifier) {
        Some(asking) => settled.add_each(
            alloc,
            asking.identifier,
            asking.filters.as_slice(),
            codes,
        ),
        None => Ok(()),
    }
}

// ---- all

impl Subscriptions {
    // Takes in an OPEN or a CLOSE, where the session is kept or a new one begins. For what waits no
    // SUBACK comes any more.
    fn take_boundary(&mut self, alloc: Global, kept: bool) -> Result<(), Memory>
        ensures settled { OnOk result ((kind : Kind) (among : List ℕ → Bool) (least : ℕ) → list_any (allows among least) (set_of self.new.settled kind) ≡ (kept && (list_any (allows among least) (set_of self.old.settled kind) || some_waits (serves kind among least) self.old.waiting.entries))) }
        ensures none { OnOk result ((i : ℕ) → get nat_eq self.new.waiting i ≡ None) }
        ensures unique { OnOk result (kept ≡ true → IsUnique nat_eq self.old.waiting) }
    {
        if !kept {
            // A large map that is cleared costs its size each time.
            self.settled = Settled::new(alloc);
            self.waiting = IndexMap::new(alloc);
            return Ok(());
        }
        self.settled.add_all(alloc, &self.waiting)?;
        self.waiting = IndexMap::new(alloc);
        Ok(())
    }

    // Takes in a packet of a connection that is accepted.
    fn take_packet(&mut self, alloc: Global, note: &Note) -> Result<(), Memory>
        ensures settled { OnOk result ((kind : Kind) (among : List ℕ → Bool) (least : ℕ) → list_any (allows among least) (set_of self.new.settled kind) ≡ (list_any (allows among least) (set_of self.old.settled kind) || (settled_asked (serves kind among least) self.old.waiting.entries (identifier_in note.now) (received_subscription note.now) || settled_granted (serves kind among least) self.old.waiting.entries (sent_grant note.now)))) }
        ensures waiting { OnOk result ((i : ℕ) → get nat_eq self.new.waiting i ≡ waiting_packet note.now i (get nat_eq self.old.waiting i)) }
    {
        if let Some(PacketFields::Suback { identifier, codes }) = note.sent_fields() {
            return answer(
                alloc,
                &mut self.settled,
                &mut self.waiting,
                *identifier,
                codes.as_slice(),
            );
        }
        if let Some(
            PacketFields::Subscribe {
                identifier,
                filters,
                wishes,
            },
        ) = note.received_fields()
        {
            return ask(
                alloc,
                &mut self.settled,
                &mut self.waiting,
                *identifier,
                filters,
                wishes.subscription_identifier,
            );
        }
        Ok(())
    }
}

impl Subscriptions {
    /// None.
    pub fn new(alloc: Global) -> Self
        ensures weightless { subscriptions_weigh result ≡ 0 }
        ensures kept { (tested : TheTested) (taken : Option TheFate) → AreKept result tested taken [] }
    {
        Subscriptions {
            settled: Settled::new(alloc),
            waiting: IndexMap::new(alloc),
        }
    }

    /// Takes in what an event of a connection that has this fate says of subscriptions.
    ///
    /// # Errors
    ///
    /// `Memory` if there is no memory for what is kept.
    pub fn take_in(&mut self, alloc: Global, fate: Fate, note: &Note) -> Result<(), Memory>
        ensures { OnOk result (TakesInEvent fate note.now self.old self.new) }
    {
        if note.is_boundary() {
            return self.take_boundary(alloc, goes_on(fate, note));
        }
        if !fate.accepts() {
            return Ok(());
        }
        self.take_packet(alloc, note)
    }

    /// What the subscriptions that match a topic say.
    pub fn matched(&self, alloc: Global, topic: &str) -> Matched
        ensures { AreMatched self.now topic.now result }
    {
        self.settled
            .matched(alloc, topic)
            .with_all(&self.waiting, topic)
    }

    // Whether one that has this Subscription Identifier matches a topic.
    fn has_named(&self, alloc: Global, topic: &str, identifier: u32) -> bool
        ensures { result ≡ matches_kept (set_of self.now.settled) self.now.waiting.entries (bearing identifier) topic.now 0 }
    {
        self.settled.has_named(alloc, topic, identifier)
            || any_named(&self.waiting, topic, identifier)
    }

    /// Whether one of these Subscription Identifiers isn't that of a subscription that matches a
    /// topic.
    pub fn lacks_one(&self, alloc: Global, topic: &str, identifiers: &[u32]) -> bool
        ensures { result ≡ list_any (λ i. not (matches_kept (set_of self.now.settled) self.now.waiting.entries (bearing i) topic.now 0)) identifiers.now }
    {
        identifiers
            .iter()
            .any(|identifier| !self.has_named(alloc, topic, *identifier))
    }

    /// How many filters are kept, and how much waits. The session's filters are counted four times
    /// at most, and once more with each of the Subscription Identifiers that they have.
    pub fn size(&self) -> usize
        ensures exact { result ≡ in_word (subscriptions_weigh self.now) }
        ensures bounded { (tested : TheTested) (taken : Option TheFate) (past : List Seen) → AreKept self.now tested taken past → subscriptions_weigh self.now ≤ 4 * subscribed_count tested.role taken past + identified_count tested.role taken past + asked_filters past }
    {
        self.settled
            .size()
            .saturating_add(sets_size(&self.settled.identified))
            .saturating_add(waiting_size(&self.waiting))
    }
}
