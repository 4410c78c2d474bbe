//! The requests that wait for their answers, with their numbers of Topic Filters (MQTT 5.0,
//! sections 3.9.3 and 3.11.3): the evidence of B03 to B07.
ghost use Rattle.std.specs.Prelude.{◌≡◌, ℕ, OnOk, Some, length, option_map};
ghost use Rattle.mq_rules.specs.ByIdentifier.{kept};
ghost use Rattle.mq_rules.specs.Words.{is_id};
ghost use Rattle.mq_rules.specs.Notes.{sent_grant, sent_deletion};
ghost use Rattle.mq_rules.specs.Moments.{Moment};
ghost use Rattle.mq_evidence.specs.Stretches.{Stretches, Comes, advanced, nothing_yet};
ghost use Rattle.mq_evidence.specs.Requests.{IsRequests, request_next, filters_of, count_of, compared, of_grant, of_too_much, of_unsuback, of_untruth};

use crate::turn::Turn;
use mq_rules::{ByIdentifier, Evidence, Memory, Note, Numbers, PacketFields};
use std::alloc::Global;

/// A request that waits for its answer.
#[derive(Clone, Copy)]
pub struct Request {
    /// Its position.
    position: u32,
    /// How many Topic Filters it has.
    filters: u64,
}

/// The first request on the connection that waits for its answer, by Packet Identifiers.
#[derive(Drop)]
pub struct Requests {
    alloc: Global,
    /// A SUBSCRIBE, which waits for its SUBACK.
    subscribes: ByIdentifier<Request>,
    /// An UNSUBSCRIBE, which waits for its UNSUBACK.
    unsubscribes: ByIdentifier<Request>,
}

// How many Topic Filters a SUBSCRIBE has that was received.
fn subscribed(note: &Note) -> u64
    ensures { result ≡ filters_of note.now }
{
    match note.received_fields() {
        Some(PacketFields::Subscribe { filters, .. }) => filters.len() as u64,
        _ => 0,
    }
}

// How many Topic Filters an UNSUBSCRIBE has that was received.
fn unsubscribed(note: &Note) -> u64
    ensures { result ≡ count_of note.now }
{
    match note.received_fields() {
        Some(PacketFields::Unsubscribe { filters, .. }) => filters.len() as u64,
        _ => 0,
    }
}

// The Packet Identifier of a SUBACK that was sent, and how many Reason Codes it has.
fn granted(note: &Note) -> Option<(u16, u64)>
    ensures { result ≡ option_map (λ a. (a.identifier, length a.codes)) (sent_grant note.now) }
{
    match note.sent_fields() {
        Some(PacketFields::Suback { identifier, codes }) => Some((*identifier, codes.len() as u64)),
        _ => None,
    }
}

// The Packet Identifier of an UNSUBACK that was sent, and how many Reason Codes it has.
fn acknowledged(note: &Note) -> Option<(u16, u64)>
    ensures { result ≡ option_map (λ a. (a.identifier, length a.codes)) (sent_deletion note.now) }
{
    match note.sent_fields() {
        Some(PacketFields::Unsuback { identifier, codes }) => {
            Some((*identifier, codes.len() as u64))
        }
        _ => None,
    }
}

// Keeps a request under the identifier that it gains, unless one is there, and drops that under the
// identifier of an answer. On a connection that begins with the event there was none.
fn keep_request(
    requests: &mut ByIdentifier<Request>,
    alloc: Global,
    opens: bool,
    gained: Option<u16>,
    lost: Option<u16>,
    request: Request,
) -> Result<(), Memory>
    ensures { OnOk result ((i : ℕ) → kept requests.new i ≡ request_next opens (is_id i gained) (is_id i lost) request (kept requests.old i)) }
{
    if opens {
        *requests = ByIdentifier::new(alloc);
    }
    if let Some(i) = lost {
        requests.remove(i);
    }
    if let Some(i) = gained {
        if !requests.contains(i) {
            requests.insert(i, request)?;
        }
    }
    Ok(())
}

// What an answer conflicts with that has this many Reason Codes: the request, with both numbers.
fn compare(request: Option<Request>, codes: u64) -> Evidence
    ensures { result ≡ compared request codes }
{
    match request {
        Some(Request { position, filters }) => Evidence {
            because: Some(position),
            numbers: Numbers::Two(filters, codes),
        },
        None => Evidence {
            because: None,
            numbers: Numbers::Nothing,
        },
    }
}

// Where a request is, if there is one.
fn place_of(request: Option<Request>) -> Option<u32>
    ensures { result ≡ option_map (λ r. r.position) request }
{
    match request {
        Some(request) => Some(request.position),
        None => None,
    }
}

// What such an answer under this identifier conflicts with.
fn compare_under(requests: &ByIdentifier<Request>, i: u16, codes: u64) -> Evidence
    ensures { result ≡ compared (kept requests.now i) codes }
{
    compare(requests.get(i), codes)
}

impl Requests {
    /// Nothing was requested.
    pub fn new(alloc: Global) -> Self
        ensures { IsRequests result nothing_yet }
    {
        Requests {
            alloc,
            subscribes: ByIdentifier::new(alloc),
            unsubscribes: ByIdentifier::new(alloc),
        }
    }

    /// Takes in the next event.
    ///
    /// # Errors
    ///
    /// `Memory` if there is no memory for what it keeps. Its state is then of no use.
    pub fn take(&mut self, turn: Turn, note: &Note) -> Result<(), Memory>
        ensures { OnOk result ((m : Moment) (s : Stretches) → Comes turn note.now m → IsRequests self.old s → IsRequests self.new (advanced turn m s)) }
    {
        let alloc = self.alloc;
        let position = turn.position;
        let subscribe = note.received_subscribe();
        let suback = note.sent_suback();
        let unsubscribe = note.received_unsubscribe();
        let unsuback = note.sent_unsuback();
        let filters = subscribed(note);
        let request = Request { position, filters };
        keep_request(
            &mut self.subscribes,
            alloc,
            turn.opens,
            subscribe,
            suback,
            request,
        )?;
        let filters = unsubscribed(note);
        let request = Request { position, filters };
        keep_request(
            &mut self.unsubscribes,
            alloc,
            turn.opens,
            unsubscribe,
            unsuback,
            request,
        )?;
        Ok(())
    }

    /// What a SUBACK conflicts with that is sent with another number of Reason Codes than its
    /// SUBSCRIBE has Topic Filters: that SUBSCRIBE, with both numbers. An event that sends no
    /// SUBACK conflicts with nothing.
    pub fn of_suback(&self, note: &Note) -> Evidence
        ensures { (s : Stretches) → IsRequests self.now s → result ≡ of_grant s.connection note.now }
    {
        match granted(note) {
            Some((i, codes)) => compare_under(&self.subscribes, i, codes),
            None => compare(None, 0),
        }
    }

    /// What a SUBACK conflicts with that grants more than its SUBSCRIBE asks for: that SUBSCRIBE.
    /// An event that sends no SUBACK conflicts with nothing.
    pub fn of_granting(&self, note: &Note) -> Evidence
        ensures { (s : Stretches) → IsRequests self.now s → result ≡ of_too_much s.connection note.now }
    {
        match note.sent_suback() {
            Some(i) => Evidence::of(place_of(self.subscribes.get(i))),
            None => Evidence::nothing(),
        }
    }

    /// What an UNSUBACK conflicts with that is sent with another number of Reason Codes than its
    /// UNSUBSCRIBE has Topic Filters: that UNSUBSCRIBE, with both numbers. An event that sends no
    /// UNSUBACK conflicts with nothing.
    pub fn of_unsuback(&self, note: &Note) -> Evidence
        ensures { (s : Stretches) → IsRequests self.now s → result ≡ of_unsuback s.connection note.now }
    {
        match acknowledged(note) {
            Some((i, codes)) => compare_under(&self.unsubscribes, i, codes),
            None => compare(None, 0),
        }
    }

    /// What an UNSUBACK conflicts with that says of a filter what isn't so: the UNSUBSCRIBE that it
    /// answers. An event that sends no UNSUBACK conflicts with nothing.
    pub fn of_untruth(&self, note: &Note) -> Evidence
        ensures { (s : Stretches) → IsRequests self.now s → result ≡ of_untruth s.connection note.now }
    {
        match note.sent_unsuback() {
            Some(i) => Evidence::of(place_of(self.unsubscribes.get(i))),
            None => Evidence::nothing(),
        }
    }
}
