//! The last SUBSCRIBE of the session that asks for a topic, refused or not (MQTT 5.0, sections
//! 3.8.3 and 4.8.2): the evidence of B09, P01, P02, R01 and R02.
ghost use Rattle.std.specs.Prelude.{◌≡◌, ◌||◌, ◌&&◌, nat_le, ℕ, Bool, List, false, None, cond, is_some, option_map, OnOk, IfSome};
ghost use Rattle.std.specs.List.{list_any};
ghost use Rattle.std.specs.Option.{option_and_then};
ghost use Rattle.mq_rules.specs.declared.role.Role.{Role as TheRole};
ghost use Rattle.mq_rules.specs.declared.fate.Fate.{Fate as TheFate};
ghost use Rattle.mq_rules.specs.Moments.{Moment, note as note_of, position as position_at};
ghost use Rattle.mq_rules.specs.Subscriptions.{topic_of};
ghost use Rattle.mq_filters.specs.Standings.{allows};
ghost use Rattle.mq_evidence.specs.Evidence.{found, by_matching, last_asking};
ghost use Rattle.mq_evidence.specs.Stretches.{Stretches, Comes, advanced, nothing_yet, stretches_before};
ghost use Rattle.mq_evidence.specs.Matching.{is_among, asks_for, IsMatching};

use crate::last_requests::LastRequests;
use crate::topics::Topics;
use crate::turn::Turn;
use mq_rules::{
    Evidence, Memory, Note, NotedFilter, PacketFields, PublishNote, is_share, shared_filter,
};
use std::alloc::Global;

/// The last SUBSCRIBE of each Topic Filter that was asked for in the session, and the topics of
/// what is sent.
#[derive(Drop)]
pub struct Matching {
    alloc: Global,
    topics: Topics,
    requests: LastRequests,
}

// Keeps the position of a SUBSCRIBE for one of its filters, and if that is shared for the filter
// after its ShareName.
fn ask(
    alloc: Global,
    requests: &mut LastRequests,
    position: u32,
    filter: &str,
) -> Result<(), Memory>
    ensures { OnOk result ((test : List ℕ → Bool) (first : ℕ) → list_any (allows test first) requests.new ≡ (list_any (allows test first) requests.old || (is_among test filter.now && nat_le first position))) }
{
    requests.stand(alloc, filter, position)?;
    if is_share(filter) {
        requests.stand(alloc, shared_filter(filter), position)?;
    }
    Ok(())
}

// Keeps the position of a SUBSCRIBE for each of its filters.
fn ask_each(
    alloc: Global,
    requests: &mut LastRequests,
    position: u32,
    filters: &[NotedFilter],
) -> Result<(), Memory>
    ensures { OnOk result ((test : List ℕ → Bool) (first : ℕ) → list_any (allows test first) requests.new ≡ (list_any (allows test first) requests.old || (list_any (λ g. is_among test g.filter) filters.now && nat_le first position))) }
{
    let mut filters = filters;
    while let Some((filter, next_filters)) = filters.split_first() {
        ask(alloc, requests, position, filter.filter.as_str())?;
        filters = next_filters;
    }
    Ok(())
}

// Where a session begins anew nothing was asked for.
fn begin(alloc: Global, requests: &mut LastRequests, begins: bool)
    ensures { (test : List ℕ → Bool) (first : ℕ) → list_any (allows test first) requests.new ≡ cond begins false (list_any (allows test first) requests.old) }
{
    if begins {
        // Large maps that are cleared cost their size each time.
        *requests = LastRequests::new(alloc);
    }
}

// Takes in a SUBSCRIBE, if the event at a position receives one and is in the session.
fn take_request(
    alloc: Global,
    requests: &mut LastRequests,
    position: u32,
    inside: bool,
    note: &Note,
) -> Result<(), Memory>
    ensures { OnOk result ((test : List ℕ → Bool) (first : ℕ) → list_any (allows test first) requests.new ≡ (list_any (allows test first) requests.old || (inside && (asks_for test note.now && nat_le first position)))) }
{
    if !inside {
        return Ok(());
    }
    match note.received_fields() {
        Some(PacketFields::Subscribe { filters, .. }) => {
            ask_each(alloc, requests, position, filters.as_slice())
        }
        _ => Ok(()),
    }
}

impl Matching {
    /// Nothing was asked for.
    pub fn new(alloc: Global) -> Self
        ensures { IsMatching result nothing_yet }
    {
        Matching {
            alloc,
            topics: Topics::new(alloc),
            requests: LastRequests::new(alloc),
        }
    }

    /// Takes in the next event.
    ///
    /// # Errors
    ///
    /// `Memory` if there is no memory for what it keeps. Its state is then of no use.
    pub fn take(&mut self, turn: Turn, note: &Note) -> Result<(), Memory>
        ensures { OnOk result ((m : Moment) (s : Stretches) → Comes turn note.now m → IsMatching self.old s → IsMatching self.new (advanced turn m s)) }
    {
        self.topics.take(turn, note)?;
        begin(self.alloc, &mut self.requests, turn.begins);
        take_request(
            self.alloc,
            &mut self.requests,
            turn.position,
            turn.inside,
            note,
        )?;
        Ok(())
    }

    /// What a PUBLISH conflicts with that is sent as no subscription allows which matches its
    /// topic: the last SUBSCRIBE that asks for the topic. An event that sends no PUBLISH, or one
    /// whose topic isn't known, conflicts with nothing.
    pub fn of_delivering(&self, note: &Note) -> Evidence
        ensures { (role : TheRole) (f : TheFate) (k : Moment) → IsMatching self.now (stretches_before role f k) → note_of k ≡ note.now → result ≡ found (by_matching role) (Some f) None k }
    {
        match note.sent_publish() {
            Some(publish) => Evidence::of(self.last_request(publish)),
            None => Evidence::nothing(),
        }
    }

    // The position of the last SUBSCRIBE that asks for the topic of a PUBLISH.
    fn last_request(&self, publish: &PublishNote) -> Option<u32>
        ensures { (role : TheRole) (f : TheFate) (k : Moment) → IsMatching self.now (stretches_before role f k) → result ≡ option_map position_at (option_and_then (λ topic. last_asking role f topic k) (topic_of k publish.now)) }
    {
        match self.topics.topic(publish) {
            Some(topic) => self.requests.last_for(topic),
            None => None,
        }
    }
}

/// What is kept if it is asked for.
pub fn matching_if(alloc: Global, needed: bool) -> Option<Matching>
    ensures kept { is_some result ≡ needed }
    ensures agrees { IfSome result (λ x. IsMatching x nothing_yet) }
{
    if needed {
        Some(Matching::new(alloc))
    } else {
        None
    }
}

/// Takes in the next event, if anything is kept.
///
/// # Errors
///
/// `Memory` if there is no memory for what is kept. Its state is then of no use.
pub fn take_matching(matching: &mut Option<Matching>, turn: Turn, note: &Note) -> Result<(), Memory>
    ensures kept { OnOk result (is_some matching.new ≡ is_some matching.old) }
    ensures agrees { OnOk result ((m : Moment) (s : Stretches) → Comes turn note.now m → IfSome matching.old (λ x. IsMatching x s) → IfSome matching.new (λ x. IsMatching x (advanced turn m s))) }
{
    match matching {
        Some(kept) => kept.take(turn, note),
        None => Ok(()),
    }
}
