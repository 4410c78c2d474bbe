//! The greatest QoS of what may be sent for a topic, and the last SUBSCRIBE that asked for it (MQTT
//! 5.0, sections 3.8.4 and 3.9): for the evidence of B02.
ghost use Rattle.std.specs.Prelude.{◌≡◌, ◌||◌, ◌&&◌, ◌==◌, ◌++◌, ◌∷◌, nat_eq, nat_le, ℕ, Bool, false, not, List, [], Option, Some, None, cond, unwrap_or, option_map, OnOk, IfOk};
ghost use Rattle.std.specs.List.{cons_option, list_any};
ghost use Rattle.indexmap.specs.IndexMap.{get, values, IsUnique};
ghost use Rattle.mq_topic.specs.Matching.{matches as is_match};
ghost use Rattle.mq_rules.specs.declared.role.Role.{Role as TheRole};
ghost use Rattle.mq_rules.specs.declared.fate.Fate.{Fate as TheFate};
ghost use Rattle.mq_rules.specs.declared.note.Seen.{Seen};
ghost use Rattle.mq_rules.specs.Words.{only};
ghost use Rattle.mq_rules.specs.Notes.{received_subscription, sent_grant};
ghost use Rattle.mq_rules.specs.Moments.{Moment, moments, newest, position as position_at, Among};
ghost use Rattle.mq_rules.specs.Identifiers.{session_before};
ghost use Rattle.mq_rules.specs.Subscriptions.{Standing, granted, standing_at};
ghost use Rattle.mq_filters.specs.Standings.{has_ceiling};
ghost use Rattle.mq_evidence.specs.Evidence.{greatest_for, last_matching};
ghost use Rattle.mq_evidence.specs.Stretches.{Comes, longer};
ghost use Rattle.mq_evidence.specs.Subscribed.{answers};
ghost use Rattle.mq_evidence.specs.Ceilings.{with_code, with_codes, settles_of, settles, asks_under, IsCeilings};
ghost use Rattle.mq_evidence.specs.Settling.{Question, passes, any_passes, holds};

use crate::last_requests::later_of;
use crate::settled::Settled;
use crate::subscribed::next_code;
use crate::turn::Turn;
use indexmap::IndexMap;
use mq_filters::{higher, raised_by};
use mq_rules::{Memory, Note, NotedFilter, PacketFields, Text};
use mq_topic::matches;
use std::alloc::Global;
use std::marker::Model;

/// The lowest Reason Code that refuses (MQTT 5.0, section 2.4).
const REFUSING: u8 = 0x80;

/// A Topic Filter of a SUBSCRIBE that waits, with the QoS that it asks for.
#[derive(Drop)]
pub struct Asked {
    filter: Text,
    ceiling: u8,
}

impl Model for Asked {
    ghost use Rattle.mq_rules.specs.Subscriptions.{Standing};

    ghost Value = { Standing };

    ghost view = { λ k. record { filter = k.filter; ceiling = k.ceiling } };
}

/// A SUBSCRIBE that waits for its SUBACK.
#[derive(Drop)]
pub struct Asking {
    position: u32,
    filters: Vec<Asked>,
}

impl Model for Asking {
    ghost use Rattle.mq_evidence.specs.Unsettled.{Unsettled};

    ghost Value = { Unsettled };

    ghost view = { λ r. record { position = r.position; filters = r.filters.items } };
}

/// The SUBSCRIBEs that wait under one Packet Identifier, the earliest first.
#[derive(Drop)]
pub struct AllAsking {
    requests: Vec<Asking>,
}

impl Model for AllAsking {
    ghost use Rattle.std.specs.Prelude.{List};
    ghost use Rattle.mq_evidence.specs.Unsettled.{Unsettled};

    ghost Value = { List Unsettled };

    ghost view = { λ r. r.requests.items };
}

/// What may be sent in the session, by Topic Filters.
#[derive(Drop)]
pub struct Ceilings {
    alloc: Global,
    /// The filters that stand whatever comes.
    settled: Settled,
    /// The SUBSCRIBEs of the connection that wait for their SUBACK, by their Packet Identifiers.
    waiting: IndexMap<u16, AllAsking>,
}

// ---- filters

// The filters of a SUBSCRIBE, with the QoS that each asks for.
fn asked_filters(alloc: Global, filters: &[NotedFilter]) -> Result<Vec<Asked>, Memory>
    ensures { IfOk result (λ kept. kept.items ≡ granted filters.now []) }
{
    let mut kept = Vec::with_capacity(alloc, filters.len())?;
    let mut filters = filters;
    while let Some((filter, next_filters)) = filters.split_first() {
        add(alloc, &mut kept, filter.filter.as_str(), filter.options % 4)?;
        filters = next_filters;
    }
    Ok(kept)
}

// Adds a filter.
fn add(alloc: Global, kept: &mut Vec<Asked>, filter: &str, ceiling: u8) -> Result<(), Memory>
    ensures { OnOk result (kept.new.items ≡ kept.old.items ++ (record { filter = filter.now; ceiling = ceiling } ∷ [])) }
{
    let filter = Text::of(alloc, filter)?;
    kept.push(Asked { filter, ceiling })?;
    Ok(())
}

// Adds a filter of the SUBSCRIBE at a position with its Reason Code, unless that refuses it.
// Without a code it keeps its ceiling.
fn add_granted(
    alloc: Global,
    settled: &mut Settled,
    position: u32,
    kept: &Asked,
    code: Option<u8>,
) -> Result<(), Memory>
    ensures { OnOk result ((q : Question) → holds q settled.new ≡ (holds q settled.old || list_any (passes q position) (with_code kept.now code))) }
{
    match code {
        None => {
            settled.stand(alloc, position, kept.filter.as_str(), kept.ceiling)?;
            Ok(())
        }
        Some(code) => {
            if code >= REFUSING {
                return Ok(());
            }
            settled.stand(alloc, position, kept.filter.as_str(), code)?;
            Ok(())
        }
    }
}

// Adds filters of the SUBSCRIBE at a position with their Reason Codes (MQTT 5.0, section 3.9.3).
fn settle(
    alloc: Global,
    settled: &mut Settled,
    position: u32,
    filters: &[Asked],
    codes: &[u8],
) -> Result<(), Memory>
    ensures { OnOk result ((q : Question) → holds q settled.new ≡ (holds q settled.old || list_any (passes q position) (with_codes filters.now codes.now))) }
{
    let mut filters = filters;
    let mut codes = codes;
    while let Some((filter, next_filters)) = filters.split_first() {
        let (code, next_codes) = next_code(codes);
        add_granted(alloc, settled, position, filter, code)?;
        filters = next_filters;
        codes = next_codes;
    }
    Ok(())
}

// The greatest ceiling of the filters that match a topic.
fn ceiling_among(filters: &[Asked], topic: &str) -> Option<u8>
    ensures { (qos : ℕ) → has_ceiling (nat_le qos) result ≡ list_any (λ s. is_match s.filter topic.now && nat_le qos s.ceiling) filters.now }
{
    let mut best = None;
    for kept in filters {
        best = raised_by(best, kept.filter.as_str(), kept.ceiling, topic);
    }
    best
}

// Whether one of the filters matches a topic.
fn any_matches(filters: &[Asked], topic: &str) -> bool
    ensures { result ≡ list_any (λ s. is_match s.filter topic.now) filters.now }
{
    for kept in filters {
        if matches(kept.filter.as_str(), topic) {
            return true;
        }
    }
    false
}

// A position, if one of the filters matches a topic.
fn position_if_any(filters: &[Asked], position: u32, topic: &str) -> Option<u32>
    ensures { (first : ℕ) → has_ceiling (nat_le first) result ≡ list_any (λ s. is_match s.filter topic.now && nat_le first position) filters.now }
{
    if any_matches(filters, topic) {
        return Some(position);
    }
    None
}

// ---- SUBSCRIBEs

impl Asking {
    // The SUBSCRIBE at a position with its filters, with the QoS that each asks for.
    fn of(alloc: Global, position: u32, filters: &[NotedFilter]) -> Result<Asking, Memory>
        ensures { IfOk result (λ request. request ≡ record { position = position; filters = granted filters.now [] }) }
    {
        let filters = asked_filters(alloc, filters)?;
        Ok(Asking { position, filters })
    }

    // Settles its filters by the Reason Codes of its SUBACK.
    fn settle(&self, alloc: Global, settled: &mut Settled, codes: &[u8]) -> Result<(), Memory>
        ensures { OnOk result ((q : Question) → holds q settled.new ≡ (holds q settled.old || settles_of (passes q) codes.now self.now)) }
    {
        settle(
            alloc,
            settled,
            self.position,
            self.filters.as_slice(),
            codes,
        )
    }

    // The greatest ceiling of its filters that match a topic.
    fn ceiling_for(&self, topic: &str) -> Option<u8>
        ensures { (qos : ℕ) → has_ceiling (nat_le qos) result ≡ list_any (λ s. is_match s.filter topic.now && nat_le qos s.ceiling) self.now.filters }
    {
        ceiling_among(self.filters.as_slice(), topic)
    }

    // Its position, if one of its filters matches a topic.
    fn position_for(&self, topic: &str) -> Option<u32>
        ensures { (first : ℕ) → has_ceiling (nat_le first) result ≡ list_any (λ s. is_match s.filter topic.now && nat_le first self.now.position) self.now.filters }
    {
        position_if_any(self.filters.as_slice(), self.position, topic)
    }
}

// The greatest ceiling of the filters that match a topic, of these SUBSCRIBEs.
fn ceiling_of_all(requests: &[Asking], topic: &str) -> Option<u8>
    ensures { (qos : ℕ) → has_ceiling (nat_le qos) result ≡ list_any (λ r. list_any (λ s. is_match s.filter topic.now && nat_le qos s.ceiling) r.filters) requests.now }
{
    let mut best = None;
    for request in requests {
        best = higher(best, request.ceiling_for(topic));
    }
    best
}

// The last of these SUBSCRIBEs of which a filter matches a topic.
fn last_of_all(requests: &[Asking], topic: &str) -> Option<u32>
    ensures { (first : ℕ) → has_ceiling (nat_le first) result ≡ list_any (λ r. list_any (λ s. is_match s.filter topic.now && nat_le first r.position) r.filters) requests.now }
{
    let mut last = None;
    for request in requests {
        last = later_of(last, request.position_for(topic));
    }
    last
}

// Settles all by the Reason Codes of one SUBACK.
fn settle_each(
    alloc: Global,
    settled: &mut Settled,
    requests: &[Asking],
    codes: &[u8],
) -> Result<(), Memory>
    ensures { OnOk result ((q : Question) → holds q settled.new ≡ (holds q settled.old || list_any (settles_of (passes q) codes.now) requests.now)) }
{
    let mut requests = requests;
    while let Some((request, next_requests)) = requests.split_first() {
        request.settle(alloc, settled, codes)?;
        requests = next_requests;
    }
    Ok(())
}

impl AllAsking {
    // None waits.
    fn new(alloc: Global) -> Self
        ensures { result ≡ [] }
    {
        AllAsking {
            requests: Vec::new(alloc),
        }
    }

    // None waits so far. There is room for one: seldom more come under one identifier.
    fn with_room(alloc: Global) -> Result<Self, Memory>
        ensures { IfOk result (λ requests. requests ≡ []) }
    {
        let requests = Vec::with_capacity(alloc, 1)?;
        Ok(AllAsking { requests })
    }

    // One more waits.
    fn wait(&mut self, request: Asking) -> Result<(), Memory>
        ensures { OnOk result (self.new ≡ self.old ++ (request ∷ [])) }
    {
        self.requests.push(request)?;
        Ok(())
    }

    // Settles the filters of each by the Reason Codes of their SUBACK.
    fn settle(&self, alloc: Global, settled: &mut Settled, codes: &[u8]) -> Result<(), Memory>
        ensures { OnOk result ((q : Question) → holds q settled.new ≡ (holds q settled.old || list_any (settles_of (passes q) codes.now) self.now)) }
    {
        settle_each(alloc, settled, self.requests.as_slice(), codes)
    }

    // Settles filters for which no SUBACK comes any more.
    #[tactic(auto, using(crate::proofs::CeilingLaws::codes_none))]
    fn settle_as_asked(&self, alloc: Global, settled: &mut Settled) -> Result<(), Memory>
        ensures { OnOk result ((q : Question) → holds q settled.new ≡ (holds q settled.old || list_any (any_passes q) self.now)) }
    {
        self.settle(alloc, settled, &[])
    }

    // The greatest ceiling of their filters that match a topic.
    fn ceiling_for(&self, topic: &str) -> Option<u8>
        ensures { (qos : ℕ) → has_ceiling (nat_le qos) result ≡ list_any (λ r. list_any (λ s. is_match s.filter topic.now && nat_le qos s.ceiling) r.filters) self.now }
    {
        ceiling_of_all(self.requests.as_slice(), topic)
    }

    // The last of them of which a filter matches a topic.
    fn last_for(&self, topic: &str) -> Option<u32>
        ensures { (first : ℕ) → has_ceiling (nat_le first) result ≡ list_any (λ r. list_any (λ s. is_match s.filter topic.now && nat_le first r.position) r.filters) self.now }
    {
        last_of_all(self.requests.as_slice(), topic)
    }
}

// Settles the filters of all SUBSCRIBEs that wait, for which no SUBACK comes any more.
fn settle_values(
    alloc: Global,
    settled: &mut Settled,
    all: &IndexMap<u16, AllAsking>,
) -> Result<(), Memory>
    ensures { OnOk result ((q : Question) → holds q settled.new ≡ (holds q settled.old || list_any (list_any (any_passes q)) (values all.now))) }
{
    for requests in all.values() {
        requests.settle_as_asked(alloc, settled)?;
    }
    Ok(())
}

// The greatest ceiling of the filters that match a topic, of all SUBSCRIBEs that wait.
fn ceiling_of_values(all: &IndexMap<u16, AllAsking>, topic: &str) -> Option<u8>
    ensures { (qos : ℕ) → has_ceiling (nat_le qos) result ≡ list_any (λ requests. list_any (λ r. list_any (λ s. is_match s.filter topic.now && nat_le qos s.ceiling) r.filters) requests) (values all.now) }
{
    let mut best = None;
    for requests in all.values() {
        best = higher(best, requests.ceiling_for(topic));
    }
    best
}

// The last of all SUBSCRIBEs that wait of which a filter matches a topic.
fn last_of_values(all: &IndexMap<u16, AllAsking>, topic: &str) -> Option<u32>
    ensures { (first : ℕ) → has_ceiling (nat_le first) result ≡ list_any (λ requests. list_any (λ r. list_any (λ s. is_match s.filter topic.now && nat_le first r.position) r.filters) requests) (values all.now) }
{
    let mut last = None;
    for requests in all.values() {
        last = later_of(last, requests.last_for(topic));
    }
    last
}

// ---- one event more

// The SUBSCRIBE at a position waits under an identifier.
fn wait(
    alloc: Global,
    waiting: &mut IndexMap<u16, AllAsking>,
    position: u32,
    identifier: u16,
    filters: &[NotedFilter],
) -> Result<(), Memory>
    ensures waiting { OnOk result ((i : ℕ) → unwrap_or (get nat_eq waiting.new i) [] ≡ unwrap_or (get nat_eq waiting.old i) [] ++ cons_option (only (i == identifier) (Some (record { position = position; filters = granted filters.now [] }))) []) }
    ensures apart { OnOk result (IsUnique nat_eq waiting.old → IsUnique nat_eq waiting.new) }
{
    let request = Asking::of(alloc, position, filters)?;
    let mut requests = match waiting.swap_remove(&identifier) {
        Some(requests) => requests,
        None => AllAsking::with_room(alloc)?,
    };
    requests.wait(request)?;
    waiting.insert(identifier, requests)?;
    Ok(())
}

// Takes in a SUBACK.
fn answer(
    alloc: Global,
    settled: &mut Settled,
    waiting: &mut IndexMap<u16, AllAsking>,
    identifier: u16,
    codes: &[u8],
) -> Result<(), Memory>
    ensures settled { OnOk result ((q : Question) → holds q settled.new ≡ (holds q settled.old || list_any (settles_of (passes q) codes.now) (unwrap_or (get nat_eq waiting.old identifier) []))) }
    ensures waiting { OnOk result ((i : ℕ) → unwrap_or (get nat_eq waiting.new i) [] ≡ cond (identifier == i) [] (unwrap_or (get nat_eq waiting.old i) [])) }
    ensures apart { OnOk result (IsUnique nat_eq waiting.old → IsUnique nat_eq waiting.new) }
{
    let requests = match waiting.swap_remove(&identifier) {
        Some(requests) => requests,
        None => AllAsking::new(alloc),
    };
    requests.settle(alloc, settled, codes)?;
    Ok(())
}

// Takes in a SUBACK, if the event sends one.
fn take_grant(
    alloc: Global,
    settled: &mut Settled,
    waiting: &mut IndexMap<u16, AllAsking>,
    note: &Note,
) -> Result<(), Memory>
    ensures settled { OnOk result ((q : Question) → holds q settled.new ≡ (holds q settled.old || settles (passes q) (sent_grant note.now) (λ i. unwrap_or (get nat_eq waiting.old i) []))) }
    ensures waiting { OnOk result ((i : ℕ) → unwrap_or (get nat_eq waiting.new i) [] ≡ cond (answers i (sent_grant note.now)) [] (unwrap_or (get nat_eq waiting.old i) [])) }
    ensures apart { OnOk result (IsUnique nat_eq waiting.old → IsUnique nat_eq waiting.new) }
{
    match note.sent_fields() {
        Some(PacketFields::Suback { identifier, codes }) => {
            answer(alloc, settled, waiting, *identifier, codes.as_slice())
        }
        _ => Ok(()),
    }
}

// Takes in a SUBSCRIBE, if the event at a position receives one and is in the session.
fn take_request(
    alloc: Global,
    waiting: &mut IndexMap<u16, AllAsking>,
    position: u32,
    inside: bool,
    note: &Note,
) -> Result<(), Memory>
    ensures waiting { OnOk result ((i : ℕ) → unwrap_or (get nat_eq waiting.new i) [] ≡ unwrap_or (get nat_eq waiting.old i) [] ++ cons_option (asks_under i position inside (received_subscription note.now)) []) }
    ensures apart { OnOk result (IsUnique nat_eq waiting.old → IsUnique nat_eq waiting.new) }
{
    if !inside {
        return Ok(());
    }
    match note.received_fields() {
        Some(
            PacketFields::Subscribe {
                identifier,
                filters,
                ..
            },
        ) => wait(alloc, waiting, position, *identifier, filters.as_slice()),
        _ => Ok(()),
    }
}

impl Ceilings {
    /// No filter stands.
    pub fn new(alloc: Global) -> Self
        ensures { (past : List Seen) → IsCeilings result past [] }
    {
        Ceilings {
            alloc,
            settled: Settled::new(alloc),
            waiting: IndexMap::new(alloc),
        }
    }

    // Where a session begins anew no filter stands. Where a connection begins no SUBACK comes any
    // more for what waits.
    fn begin(&mut self, begins: bool, opens: bool) -> Result<(), Memory>
        ensures settled { OnOk result ((q : Question) → holds q self.new.settled ≡ cond begins false (holds q self.old.settled || (opens && list_any (list_any (any_passes q)) (values self.old.waiting)))) }
        ensures waiting { OnOk result ((i : ℕ) → unwrap_or (get nat_eq self.new.waiting i) [] ≡ cond (begins || opens) [] (unwrap_or (get nat_eq self.old.waiting i) [])) }
        ensures apart { OnOk result (IsUnique nat_eq self.old.waiting → IsUnique nat_eq self.new.waiting) }
    {
        if begins {
            // Large maps that are cleared cost their size each time.
            self.settled = Settled::new(self.alloc);
            self.waiting = IndexMap::new(self.alloc);
            return Ok(());
        }
        if opens {
            settle_values(self.alloc, &mut self.settled, &self.waiting)?;
            self.waiting = IndexMap::new(self.alloc);
        }
        Ok(())
    }

    /// Takes in the next event.
    ///
    /// # Errors
    ///
    /// `Memory` if there is no memory for what it keeps. Its state is then of no use.
    pub fn take(&mut self, turn: Turn, note: &Note) -> Result<(), Memory>
        ensures { OnOk result ((e : Seen) (past : List Seen) (ms : List Moment) → Comes turn note.now (newest e past) → ((j : Moment) → Among j ms → Among j (moments past)) → IsCeilings self.old past ms
            → IsCeilings self.new (e ∷ past) (longer turn.begins turn.inside (newest e past) ms)) }
    {
        self.begin(turn.begins, note.is_open())?;
        take_grant(self.alloc, &mut self.settled, &mut self.waiting, note)?;
        take_request(
            self.alloc,
            &mut self.waiting,
            turn.position,
            turn.inside,
            note,
        )?;
        Ok(())
    }

    /// The greatest QoS that a filter which stands allows for a topic, if one matches it.
    ///
    /// # Errors
    ///
    /// `Memory` if there is no memory to look for it.
    pub fn greatest(&self, topic: &str) -> Result<Option<u8>, Memory>
        ensures { IfOk result (λ ceiling. (role : TheRole) (f : TheFate) (k : Moment) → IsCeilings self.now k.past (session_before role f k) → ceiling ≡ greatest_for topic.now (standing_at role f k)) }
    {
        let standing = self.settled.ceiling_for(self.alloc, topic)?;
        Ok(higher(standing, ceiling_of_values(&self.waiting, topic)))
    }

    /// The position of the last SUBSCRIBE of which a filter stands that matches a topic.
    pub fn last_request(&self, topic: &str) -> Option<u32>
        ensures { (role : TheRole) (f : TheFate) (k : Moment) → IsCeilings self.now k.past (session_before role f k) → result ≡ option_map position_at (last_matching role f topic.now k) }
    {
        later_of(
            self.settled.last_for(topic),
            last_of_values(&self.waiting, topic),
        )
    }
}
