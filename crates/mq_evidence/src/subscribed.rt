//! Topic Filters that stand (MQTT 5.0, sections 3.8 and 3.9): the evidence of B01.
ghost use Rattle.std.specs.Prelude.{◌≡◌, ◌+◌, ◌-◌, ◌||◌, ◌&&◌, ◌==◌, ◌++◌, ◌∷◌, nat_eq, ℕ, List, [], Option, Some, cond, unwrap_or, option_map, OnOk, IfOk};
ghost use Rattle.std.specs.List.{cons_option};
ghost use Rattle.std.specs.Str.{bytes_eq};
ghost use Rattle.std.specs.String.{string_bytes};
ghost use Rattle.indexmap.specs.IndexMap.{get, get_by_text};
ghost use Rattle.mq_rules.specs.declared.role.Role.{Role as TheRole};
ghost use Rattle.mq_rules.specs.declared.fate.Fate.{Fate as TheFate};
ghost use Rattle.mq_rules.specs.declared.note.Seen.{Seen};
ghost use Rattle.mq_rules.specs.Words.{only};
ghost use Rattle.mq_rules.specs.Notes.{is_open as opens_one, received_subscription, sent_grant, refuses};
ghost use Rattle.mq_rules.specs.Moments.{Moment, moments, newest, Among};
ghost use Rattle.mq_rules.specs.Connections.{session};
ghost use Rattle.mq_rules.specs.Identifiers.{session_before};
ghost use Rattle.mq_rules.specs.Subscriptions.{standing_at};
ghost use Rattle.mq_rules.specs.Under.{seen};
ghost use Rattle.mq_evidence.specs.Evidence.{different as different_of};
ghost use Rattle.mq_evidence.specs.Stretches.{Comes, longer};
ghost use Rattle.mq_evidence.specs.Subscribed.{texts, first_code, other_codes, refused_once, refused, refused_of, lost, answers, named, asked, asks, IsPositive, IsSubscribed};

use crate::turn::Turn;
use indexmap::IndexMap;
use mq_rules::{ItemNote, Memory, Note, NotedFilter, PacketFields, Text};
use std::alloc::Global;
use std::marker::Model;

/// The lowest Reason Code that refuses (MQTT 5.0, section 2.4).
const REFUSING: u8 = 0x80;

/// The Topic Filters of a SUBSCRIBE that waits for its SUBACK.
#[derive(Drop)]
pub struct Request {
    filters: Vec<Text>,
}

impl Model for Request {
    ghost use Rattle.std.specs.Prelude.{List, ℕ};

    ghost Value = { List (List ℕ) };

    ghost view = { λ r. r.filters.items };
}

/// The SUBSCRIBEs that wait under one Packet Identifier, the earliest first. There is one, unless
/// the client uses the identifier again too early.
#[derive(Drop)]
pub struct Requests {
    requests: Vec<Request>,
}

impl Model for Requests {
    ghost use Rattle.std.specs.Prelude.{List, ℕ};

    ghost Value = { List (List (List ℕ)) };

    ghost view = { λ r. r.requests.items };
}

/// The Topic Filters that stand in the session.
#[derive(Drop)]
pub struct Subscribed {
    alloc: Global,
    /// How often each filter stands: the SUBSCRIBEs that ask for it and weren't refused.
    counts: IndexMap<String, u64>,
    /// The SUBSCRIBEs of the connection that wait for their SUBACK, by their Packet Identifiers.
    waiting: IndexMap<u16, Requests>,
}

// ---- how often a filter stands

/// A copy of a text; `Memory` if there is no memory for it.
pub fn copy_of(alloc: Global, text: &str) -> Result<String, Memory>
    ensures { IfOk result (λ copy. string_bytes copy ≡ text.now) }
{
    let mut copy = String::with_capacity(alloc, text.len())?;
    copy.push_str(text)?;
    Ok(copy)
}

// How often a filter stands.
fn count_of(counts: &IndexMap<String, u64>, filter: &str) -> u64
    ensures { result ≡ unwrap_or (get_by_text counts.now filter.now) 0 }
{
    match counts.get(filter) {
        Some(count) => *count,
        None => 0,
    }
}

// A filter stands once more. A number that doesn't fit is more than there is memory for.
fn raise(alloc: Global, counts: &mut IndexMap<String, u64>, filter: &str) -> Result<(), Memory>
    ensures counts { OnOk result ((f : List ℕ) → unwrap_or (get_by_text counts.new f) 0 ≡ cond (bytes_eq f filter.now) 1 0 + unwrap_or (get_by_text counts.old f) 0) }
    ensures positive { OnOk result (IsPositive (get_by_text counts.old) → IsPositive (get_by_text counts.new)) }
{
    let Some(count) = count_of(counts, filter).checked_add(1) else {
        return Err(Memory);
    };
    let key = copy_of(alloc, filter)?;
    counts.insert(key, count)?;
    Ok(())
}

// A filter stands once less.
fn lower(counts: &mut IndexMap<String, u64>, filter: &str) -> Result<(), Memory>
    ensures counts { OnOk result ((f : List ℕ) → unwrap_or (get_by_text counts.new f) 0 ≡ unwrap_or (get_by_text counts.old f) 0 - cond (bytes_eq f filter.now) 1 0) }
    ensures positive { OnOk result (IsPositive (get_by_text counts.old) → IsPositive (get_by_text counts.new)) }
{
    let Some((key, count)) = counts.swap_remove_entry(filter) else {
        return Ok(());
    };
    if count <= 1 {
        return Ok(());
    }
    counts.insert(key, count - 1)?;
    Ok(())
}

// These filters stand once more.
fn raise_all(
    alloc: Global,
    counts: &mut IndexMap<String, u64>,
    filters: &[NotedFilter],
) -> Result<(), Memory>
    ensures counts { OnOk result ((f : List ℕ) → unwrap_or (get_by_text counts.new f) 0 ≡ named f (texts filters.now) + unwrap_or (get_by_text counts.old f) 0) }
    ensures positive { OnOk result (IsPositive (get_by_text counts.old) → IsPositive (get_by_text counts.new)) }
{
    let mut filters = filters;
    while let Some((filter, next_filters)) = filters.split_first() {
        raise(alloc, counts, filter.filter.as_str())?;
        filters = next_filters;
    }
    Ok(())
}

// A filter stands once less, if its Reason Code refuses it.
fn refuse(counts: &mut IndexMap<String, u64>, filter: &str, code: Option<u8>) -> Result<(), Memory>
    ensures counts { OnOk result ((f : List ℕ) → unwrap_or (get_by_text counts.new f) 0 ≡ unwrap_or (get_by_text counts.old f) 0 - refused_once f filter.now code) }
    ensures positive { OnOk result (IsPositive (get_by_text counts.old) → IsPositive (get_by_text counts.new)) }
{
    match code {
        Some(code) => {
            if code < REFUSING {
                return Ok(());
            }
            lower(counts, filter)?;
            Ok(())
        }
        None => Ok(()),
    }
}

/// The first of the Reason Codes that are left, if there is one, and the others.
pub fn next_code(codes: &[u8]) -> (Option<u8>, &[u8])
    ensures first { result.0 ≡ first_code codes.now }
    ensures others { result.1.now ≡ other_codes codes.now }
{
    match codes.split_first() {
        Some((code, others)) => (Some(*code), others),
        None => (None, codes),
    }
}

// These filters stand once less, but for those that their Reason Codes don't refuse.
fn refuse_all(
    counts: &mut IndexMap<String, u64>,
    filters: &[Text],
    codes: &[u8],
) -> Result<(), Memory>
    ensures counts { OnOk result ((f : List ℕ) → unwrap_or (get_by_text counts.new f) 0 ≡ unwrap_or (get_by_text counts.old f) 0 - refused f filters.now codes.now) }
    ensures positive { OnOk result (IsPositive (get_by_text counts.old) → IsPositive (get_by_text counts.new)) }
{
    let mut filters = filters;
    let mut codes = codes;
    while let Some((filter, next_filters)) = filters.split_first() {
        let (code, next_codes) = next_code(codes);
        refuse(counts, filter.as_str(), code)?;
        filters = next_filters;
        codes = next_codes;
    }
    Ok(())
}

// The same for several SUBSCRIBEs.
fn refuse_each(
    counts: &mut IndexMap<String, u64>,
    requests: &[Request],
    codes: &[u8],
) -> Result<(), Memory>
    ensures counts { OnOk result ((f : List ℕ) → unwrap_or (get_by_text counts.new f) 0 ≡ unwrap_or (get_by_text counts.old f) 0 - refused_of f requests.now codes.now) }
    ensures positive { OnOk result (IsPositive (get_by_text counts.old) → IsPositive (get_by_text counts.new)) }
{
    let mut requests = requests;
    while let Some((request, next_requests)) = requests.split_first() {
        refuse_all(counts, request.filters.as_slice(), codes)?;
        requests = next_requests;
    }
    Ok(())
}

// ---- what waits

// The filters of a SUBSCRIBE.
fn asked_filters(alloc: Global, filters: &[NotedFilter]) -> Result<Vec<Text>, Memory>
    ensures { IfOk result (λ kept. kept.items ≡ texts filters.now) }
{
    let mut kept = Vec::with_capacity(alloc, filters.len())?;
    let mut filters = filters;
    while let Some((filter, next_filters)) = filters.split_first() {
        let text = Text::of(alloc, filter.filter.as_str())?;
        kept.push(text)?;
        filters = next_filters;
    }
    Ok(kept)
}

impl Request {
    // The filters of a SUBSCRIBE.
    fn of(alloc: Global, filters: &[NotedFilter]) -> Result<Request, Memory>
        ensures { IfOk result (λ request. request ≡ texts filters.now) }
    {
        let filters = asked_filters(alloc, filters)?;
        Ok(Request { filters })
    }
}

impl Requests {
    // None waits so far. There is room for one: seldom more come under one identifier.
    fn with_room(alloc: Global) -> Result<Self, Memory>
        ensures { IfOk result (λ requests. requests ≡ []) }
    {
        let requests = Vec::with_capacity(alloc, 1)?;
        Ok(Requests { requests })
    }

    // One more waits.
    fn wait(&mut self, request: Request) -> Result<(), Memory>
        ensures { OnOk result (self.new ≡ self.old ++ (request ∷ [])) }
    {
        self.requests.push(request)?;
        Ok(())
    }

    // Refuses what the Reason Codes of their SUBACK refuse.
    fn refuse(&self, counts: &mut IndexMap<String, u64>, codes: &[u8]) -> Result<(), Memory>
        ensures counts { OnOk result ((f : List ℕ) → unwrap_or (get_by_text counts.new f) 0 ≡ unwrap_or (get_by_text counts.old f) 0 - refused_of f self.now codes.now) }
        ensures positive { OnOk result (IsPositive (get_by_text counts.old) → IsPositive (get_by_text counts.new)) }
    {
        refuse_each(counts, self.requests.as_slice(), codes)
    }
}

// A SUBSCRIBE waits under an identifier.
fn wait(
    alloc: Global,
    waiting: &mut IndexMap<u16, Requests>,
    identifier: u16,
    filters: &[NotedFilter],
) -> Result<(), Memory>
    ensures { OnOk result ((i : ℕ) → unwrap_or (get nat_eq waiting.new i) [] ≡ unwrap_or (get nat_eq waiting.old i) [] ++ cons_option (only (i == identifier) (Some (texts filters.now))) []) }
{
    let request = Request::of(alloc, filters)?;
    let mut requests = match waiting.swap_remove(&identifier) {
        Some(requests) => requests,
        None => Requests::with_room(alloc)?,
    };
    requests.wait(request)?;
    waiting.insert(identifier, requests)?;
    Ok(())
}

// ---- one event more

// Takes in a SUBACK, if the event sends one.
fn take_grant(
    counts: &mut IndexMap<String, u64>,
    waiting: &mut IndexMap<u16, Requests>,
    note: &Note,
) -> Result<(), Memory>
    ensures counts { OnOk result ((f : List ℕ) → unwrap_or (get_by_text counts.new f) 0 ≡ unwrap_or (get_by_text counts.old f) 0 - lost f (sent_grant note.now) (λ i. unwrap_or (get nat_eq waiting.old i) [])) }
    ensures positive { OnOk result (IsPositive (get_by_text counts.old) → IsPositive (get_by_text counts.new)) }
    ensures waiting { OnOk result ((i : ℕ) → unwrap_or (get nat_eq waiting.new i) [] ≡ cond (answers i (sent_grant note.now)) [] (unwrap_or (get nat_eq waiting.old i) [])) }
{
    match note.sent_fields() {
        Some(PacketFields::Suback { identifier, codes }) => {
            answer(counts, waiting, *identifier, codes.as_slice())
        }
        _ => Ok(()),
    }
}

// Takes in a SUBACK.
fn answer(
    counts: &mut IndexMap<String, u64>,
    waiting: &mut IndexMap<u16, Requests>,
    identifier: u16,
    codes: &[u8],
) -> Result<(), Memory>
    ensures counts { OnOk result ((f : List ℕ) → unwrap_or (get_by_text counts.new f) 0 ≡ unwrap_or (get_by_text counts.old f) 0 - refused_of f (unwrap_or (get nat_eq waiting.old identifier) []) codes.now) }
    ensures positive { OnOk result (IsPositive (get_by_text counts.old) → IsPositive (get_by_text counts.new)) }
    ensures waiting { OnOk result ((i : ℕ) → unwrap_or (get nat_eq waiting.new i) [] ≡ cond (identifier == i) [] (unwrap_or (get nat_eq waiting.old i) [])) }
{
    match waiting.swap_remove(&identifier) {
        Some(requests) => requests.refuse(counts, codes),
        None => Ok(()),
    }
}

// Takes in a SUBSCRIBE, if the event receives one and is in the session.
fn take_request(
    alloc: Global,
    counts: &mut IndexMap<String, u64>,
    waiting: &mut IndexMap<u16, Requests>,
    inside: bool,
    note: &Note,
) -> Result<(), Memory>
    ensures counts { OnOk result ((f : List ℕ) → unwrap_or (get_by_text counts.new f) 0 ≡ named f (asked inside (received_subscription note.now)) + unwrap_or (get_by_text counts.old f) 0) }
    ensures positive { OnOk result (IsPositive (get_by_text counts.old) → IsPositive (get_by_text counts.new)) }
    ensures waiting { OnOk result ((i : ℕ) → unwrap_or (get nat_eq waiting.new i) [] ≡ unwrap_or (get nat_eq waiting.old i) [] ++ cons_option (asks i inside (received_subscription note.now)) []) }
{
    if !inside {
        return Ok(());
    }
    match note.received_fields() {
        Some(
            PacketFields::Subscribe {
                identifier,
                filters,
                ..
            },
        ) => {
            raise_all(alloc, counts, filters.as_slice())?;
            wait(alloc, waiting, *identifier, filters.as_slice())?;
            Ok(())
        }
        _ => Ok(()),
    }
}

impl Subscribed {
    /// No filter stands.
    pub fn new(alloc: Global) -> Self
        ensures { (past : List Seen) → IsSubscribed result past [] }
    {
        Subscribed {
            alloc,
            counts: IndexMap::new(alloc),
            waiting: IndexMap::new(alloc),
        }
    }

    // Where a session begins anew no filter stands. Where a connection begins nothing waits.
    fn begin(&mut self, begins: bool, opens: bool)
        ensures counts { (f : List ℕ) → unwrap_or (get_by_text self.new.counts f) 0 ≡ cond begins 0 (unwrap_or (get_by_text self.old.counts f) 0) }
        ensures positive { IsPositive (get_by_text self.old.counts) → IsPositive (get_by_text self.new.counts) }
        ensures waiting { (i : ℕ) → unwrap_or (get nat_eq self.new.waiting i) [] ≡ cond (begins || opens) [] (unwrap_or (get nat_eq self.old.waiting i) []) }
    {
        if begins {
            // A large map that is cleared costs its size each time.
            self.counts = IndexMap::new(self.alloc);
        }
        if begins || opens {
            self.waiting = IndexMap::new(self.alloc);
        }
    }

    /// Takes in the next event.
    ///
    /// # Errors
    ///
    /// `Memory` if there is no memory for what it keeps. Its state is then of no use.
    pub fn take(&mut self, turn: Turn, note: &Note) -> Result<(), Memory>
        ensures { OnOk result ((e : Seen) (past : List Seen) (ms : List Moment) → Comes turn note.now (newest e past) → ((j : Moment) → Among j ms → Among j (moments past)) → IsSubscribed self.old past ms
            → IsSubscribed self.new (e ∷ past) (longer turn.begins turn.inside (newest e past) ms)) }
    {
        self.begin(turn.begins, note.is_open());
        take_grant(&mut self.counts, &mut self.waiting, note)?;
        take_request(
            self.alloc,
            &mut self.counts,
            &mut self.waiting,
            turn.inside,
            note,
        )?;
        Ok(())
    }

    /// How many different filters stand.
    pub fn different(&self) -> u64
        ensures { (role : TheRole) (f : TheFate) (k : Moment) → IsSubscribed self.now k.past (session_before role f k) → result ≡ different_of (standing_at role f k) }
    {
        self.counts.len() as u64
    }
}
