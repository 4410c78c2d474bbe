//! The Topic Filters of a session: those that stand, and those of SUBSCRIBEs that wait for their
//! SUBACK (MQTT 5.0, sections 3.8 and 3.9).
ghost use Rattle.std.specs.Prelude.{◌≡◌, ◌≤◌, ◌+◌, ◌*◌, ◌==◌, ◌&&◌, ◌||◌, nat_le, ℕ, Bool, true, List, [], Some, cond, not, option_map, OnOk, IfOk};
ghost use Rattle.std.specs.List.{list_any, sum_by};
ghost use Rattle.std.specs.Str.{bytes_eq};
ghost use Rattle.std.specs.String.{string_bytes};
ghost use Rattle.std.specs.Set.{distinct_count};
ghost use Rattle.indexmap.specs.IndexMap.{index_map_len};
ghost use Rattle.mq_rules.specs.Words.{is_some_and};
ghost use Rattle.mq_rules.specs.Notes.{received_subscription, sent_grant};
ghost use Rattle.mq_rules.specs.Subscriptions.{Standing};
ghost use Rattle.mq_rules.specs.Weights.{in_word};
ghost use Rattle.mq_filters.specs.Standings.{has_ceiling, allows};
ghost use Rattle.mq_subscriptions.specs.Weights.{filters_weigh};
ghost use Rattle.mq_subscriptions.specs.Standings.{goes_on as keeps_session, Waits, waits_weight, asked, weighed, sum_next, with_codes, is_answered, grants_some, settled_next, waiting_next, allows_topic, changes_filters, said_by, Remembers};

use crate::awaited::{Awaited, Request};
use indexmap::IndexMap;
use mq_filters::{StandingFilters, higher};
use mq_rules::{Fate, ItemNote, Memory, Note, PacketFields};
use std::alloc::Global;
use std::marker::Model;

// ---- SUBSCRIBEs

// Settles the SUBSCRIBEs that wait under this identifier.
fn answer(
    alloc: Global,
    settled: &mut StandingFilters,
    waiting: &mut Awaited,
    identifier: u16,
    codes: &[u8],
) -> Result<(), Memory>
    ensures settled { OnOk result ((among : List ℕ → Bool) (qos : ℕ) → list_any (allows among qos) settled.new ≡ (list_any (allows among qos) settled.old || list_any (λ w. (identifier == w.identifier) && list_any (allows among qos) (with_codes w.filters codes.now)) waiting.old)) }
    ensures left { OnOk result ((t : Waits → Bool) → list_any t waiting.new ≡ list_any (λ w. not (identifier == w.identifier) && t w) waiting.old) }
    ensures sums { OnOk result ((weigh : Waits → ℕ) → sum_by weigh waiting.new ≡ sum_by (λ w. cond (identifier == w.identifier) 0 (weigh w)) waiting.old) }
{
    match waiting.answer(identifier) {
        Some(requests) => requests.settle(alloc, settled, codes),
        None => Ok(()),
    }
}

/// Whether the session goes on with an event of a connection that has this fate.
pub fn goes_on(fate: Fate, note: &Note) -> bool
    ensures { result ≡ keeps_session fate note.now }
{
    !(note.is_open() && fate.begins())
}

// Takes in an OPEN or a CLOSE, where the session is kept or a new one begins. For what waits no
// SUBACK comes any more.
fn take_boundary(
    alloc: Global,
    settled: &mut StandingFilters,
    waiting: &mut Awaited,
    kept: bool,
) -> Result<(), Memory>
    ensures settled { OnOk result ((among : List ℕ → Bool) (qos : ℕ) → list_any (allows among qos) settled.new ≡ (kept && (list_any (allows among qos) settled.old || list_any (λ w. list_any (allows among qos) w.filters) waiting.old))) }
    ensures none { OnOk result (waiting.new ≡ []) }
{
    if !kept {
        // A large map that is cleared costs its size each time.
        *settled = StandingFilters::new(alloc);
        *waiting = Awaited::new(alloc);
        return Ok(());
    }
    waiting.settle_all(alloc, settled)?;
    *waiting = Awaited::new(alloc);
    Ok(())
}

// Takes in a SUBACK, if the event sends one.
fn take_grant(
    alloc: Global,
    settled: &mut StandingFilters,
    waiting: &mut Awaited,
    note: &Note,
) -> Result<(), Memory>
    ensures settled { OnOk result ((among : List ℕ → Bool) (qos : ℕ) → list_any (allows among qos) settled.new ≡ (list_any (allows among qos) settled.old || grants_some (allows among qos) (sent_grant note.now) (λ p. list_any p waiting.old))) }
    ensures left { OnOk result ((t : Waits → Bool) → list_any t waiting.new ≡ list_any (λ w. not (is_answered (sent_grant note.now) w) && t w) waiting.old) }
    ensures sums { OnOk result ((weigh : Waits → ℕ) → sum_by weigh waiting.new ≡ sum_by (λ w. cond (is_answered (sent_grant note.now) w) 0 (weigh w)) waiting.old) }
{
    match note.sent_fields() {
        Some(PacketFields::Suback { identifier, codes }) => {
            answer(alloc, settled, waiting, *identifier, codes.as_slice())?;
            Ok(())
        }
        _ => Ok(()),
    }
}

// Takes in a SUBSCRIBE, if the event is one that is received on a connection that is accepted.
fn take_request(
    alloc: Global,
    waiting: &mut Awaited,
    accepted: bool,
    note: &Note,
) -> Result<(), Memory>
    ensures any { OnOk result ((t : Waits → Bool) → list_any t waiting.new ≡ ((accepted && is_some_and t (option_map asked (received_subscription note.now))) || list_any t waiting.old)) }
    ensures sums { OnOk result ((weigh : Waits → ℕ) → sum_by weigh waiting.new ≡ cond accepted (weighed weigh (option_map asked (received_subscription note.now))) 0 + sum_by weigh waiting.old) }
{
    if !accepted {
        return Ok(());
    }
    match note.received_fields() {
        Some(
            PacketFields::Subscribe {
                identifier,
                filters,
                ..
            },
        ) => {
            let request = Request::of(alloc, filters.as_slice())?;
            waiting.wait(alloc, *identifier, request)?;
            Ok(())
        }
        _ => Ok(()),
    }
}

// Takes in what an event of a connection that has this fate says of filters.
fn take_filters(
    alloc: Global,
    settled: &mut StandingFilters,
    waiting: &mut Awaited,
    fate: Fate,
    note: &Note,
) -> Result<(), Memory>
    ensures settled { OnOk result ((among : List ℕ → Bool) (qos : ℕ) → list_any (allows among qos) settled.new ≡ settled_next fate note.now (allows among qos) (list_any (allows among qos) settled.old) (λ p. list_any p waiting.old)) }
    ensures waiting { OnOk result ((t : Waits → Bool) → list_any t waiting.new ≡ waiting_next fate note.now t (λ p. list_any p waiting.old)) }
    ensures sums { OnOk result ((weigh : Waits → ℕ) → sum_by weigh waiting.new ≡ sum_next fate note.now weigh (λ g. sum_by g waiting.old)) }
{
    if note.is_boundary() {
        take_boundary(alloc, settled, waiting, goes_on(fate, note))?;
        return Ok(());
    }
    take_grant(alloc, settled, waiting, note)?;
    take_request(alloc, waiting, fate.accepts(), note)?;
    Ok(())
}

// ---- ceilings

// The greatest ceiling of the filters that match a topic.
fn search(
    alloc: Global,
    settled: &StandingFilters,
    waiting: &Awaited,
    topic: &str,
) -> Result<Option<u8>, Memory>
    ensures { IfOk result (λ ceiling. (qos : ℕ) → has_ceiling (nat_le qos) ceiling ≡ allows_topic settled.now waiting.now topic.now qos) }
{
    let standing = settled.ceiling_for(alloc, topic)?;
    Ok(higher(standing, waiting.ceiling_for(topic)))
}

/// A copy of a text; `Memory` if there is no memory for it.
pub fn copy_of(alloc: Global, text: &str) -> Result<String, Memory>
    ensures { IfOk result (λ copy. string_bytes copy ≡ text.now) }
{
    let mut copy = String::with_capacity(alloc, text.len())?;
    copy.push_str(text)?;
    Ok(copy)
}

// Keeps what was found for a topic, unless there are twice as many as there are filters.
fn keep(
    alloc: Global,
    found: &mut IndexMap<String, Option<u8>>,
    filters: usize,
    topic: &str,
    ceiling: Option<u8>,
) -> Result<(), Memory>
    ensures remembers { (settled : List Standing) (waiting : List Waits) → ((qos : ℕ) → has_ceiling (nat_le qos) ceiling ≡ allows_topic settled waiting topic.now qos) → Remembers settled waiting found.old.entries → Remembers settled waiting found.new.entries }
    ensures few { index_map_len found.old ≤ 2 * filters → index_map_len found.new ≤ 2 * filters }
{
    if found.len() / 2 >= filters {
        return Ok(());
    }
    let copy = copy_of(alloc, topic)?;
    found.insert(copy, ceiling)?;
    Ok(())
}

// Whether an event may change the filters.
#[inline]
fn may_change(note: &Note) -> bool
    ensures { result ≡ changes_filters note.now }
{
    match note {
        Note::Open | Note::Close { .. } => true,
        Note::Sent(ItemNote::Packet(packet)) => {
            matches!(packet.fields, PacketFields::Suback { .. })
        }
        Note::Recv(ItemNote::Packet(packet)) => {
            matches!(packet.fields, PacketFields::Subscribe { .. })
        }
        _ => false,
    }
}

/// The filters of a session.
///
/// What was found for a topic is kept as long as no filter changes.
pub struct Filters {
    settled: StandingFilters,
    waiting: Awaited,
    found: IndexMap<String, Option<u8>>,
}

impl Model for Filters {
    ghost use Rattle.std.specs.Prelude.{◌≤◌, ◌*◌, length};
    ghost use Rattle.indexmap.specs.IndexMap.{index_map_len};
    ghost use Rattle.mq_subscriptions.specs.Standings.{SessionFilters, Remembers};

    ghost Value = { SessionFilters };

    ghost view = { λ f. record { settled = f.settled; waiting = f.waiting; found = index_map_len f.found } };

    ghost invariant = { λ f. Remembers f.settled f.waiting f.found.entries × (index_map_len f.found ≤ 2 * length f.settled) };
}

// As a derived one, but a call of its own.
impl Drop for Filters {
    #[inline(never)]
    fn drop(self) {
        let Filters {
            settled: _settled,
            waiting: _waiting,
            found: _found,
        } = self;
    }
}

impl Filters {
    /// No filter stands, and none waits.
    pub fn new(alloc: Global) -> Self
        ensures { result ≡ record { settled = []; waiting = []; found = 0 } }
    {
        Filters {
            settled: StandingFilters::new(alloc),
            waiting: Awaited::new(alloc),
            found: IndexMap::new(alloc),
        }
    }

    /// The greatest ceiling of the filters that match a topic.
    ///
    /// # Errors
    ///
    /// `Memory` if there is no memory to keep it.
    pub fn ceiling_for(&mut self, alloc: Global, topic: &str) -> Result<Option<u8>, Memory>
        ensures unchanged { said_by self.new ≡ said_by self.old }
        ensures greatest { IfOk result (λ ceiling. (qos : ℕ) → has_ceiling (nat_le qos) ceiling ≡ allows_topic self.old.settled self.old.waiting topic.now qos) }
    {
        if self.settled.is_literal() && self.waiting.is_empty() {
            return search(alloc, &self.settled, &self.waiting, topic);
        }
        if let Some(ceiling) = self.found.get(topic) {
            return Ok(*ceiling);
        }
        let ceiling = search(alloc, &self.settled, &self.waiting, topic)?;
        keep(alloc, &mut self.found, self.settled.len(), topic, ceiling)?;
        Ok(ceiling)
    }

    /// Takes in what an event of a connection that has this fate says of filters.
    #[inline]
    pub fn take_in(&mut self, alloc: Global, fate: Fate, note: &Note) -> Result<(), Memory>
        ensures settled { OnOk result ((among : List ℕ → Bool) (qos : ℕ) → list_any (allows among qos) self.new.settled ≡ settled_next fate note.now (allows among qos) (list_any (allows among qos) self.old.settled) (λ p. list_any p self.old.waiting)) }
        ensures waiting { OnOk result ((t : Waits → Bool) → list_any t self.new.waiting ≡ waiting_next fate note.now t (λ p. list_any p self.old.waiting)) }
        ensures sums { OnOk result ((weigh : Waits → ℕ) → sum_by weigh self.new.waiting ≡ sum_next fate note.now weigh (λ g. sum_by g self.old.waiting)) }
    {
        if !may_change(note) {
            return Ok(());
        }
        self.found = IndexMap::new(alloc);
        take_filters(alloc, &mut self.settled, &mut self.waiting, fate, note)?;
        Ok(())
    }

    /// How many filters stand, what was found for topics, and how much waits.
    pub fn size(&self) -> usize
        ensures exact { result ≡ in_word (filters_weigh self.now) }
        ensures bounded { (filters : List (List ℕ)) → ((f : List ℕ) → list_any (λ s. bytes_eq f s.filter) self.now.settled ≡ true → list_any (bytes_eq f) filters ≡ true) → result ≤ 3 * distinct_count bytes_eq filters + sum_by waits_weight self.now.waiting }
    {
        self.settled
            .len()
            .saturating_add(self.found.len())
            .saturating_add(self.waiting.size())
    }
}
