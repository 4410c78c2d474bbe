//! How often it is put to the test that a resumed session's packets are sent again.
ghost use Rattle.std.specs.Prelude.{◌≡◌, ◌<◌, ◌+◌, ◌&&◌, [], ◌∷◌, true, cond, nat_le, List, Option, Some, is_some, nat_eq};
ghost use Rattle.mq_rules.specs.KeptOrder.{value_under};
ghost use Rattle.mq_rules.specs.declared.role.Tested.{Tested as TheTested};
ghost use Rattle.mq_rules.specs.declared.fate.Fate.{Fate as TheFate};
ghost use Rattle.mq_rules.specs.declared.fate.Fate.TheVariants.{Void};
ghost use Rattle.mq_rules.specs.declared.rule.Rule.TheVariants.{S06};
ghost use Rattle.mq_rules.specs.declared.note.Seen.{Seen as TheSeen};
ghost use Rattle.mq_rules.specs.Words.{is_some_and};
ghost use Rattle.mq_rules.specs.Notes.{note_in, opener_of};
ghost use Rattle.mq_rules.specs.Connections.{accepts, begins};
ghost use Rattle.mq_rules.specs.Under.{seen, IsUnder, fate_before};
ghost use Rattle.mq_rules.specs.Occasions.{places_under};
ghost use Rattle.mq_inflight.specs.Using.{IsUsing};
ghost use Rattle.mq_inflight.specs.Resumings as resumings;
ghost use Rattle.mq_inflight.specs.Resumings.{CountsResumed, ended_at, moved_on, remaining};

use super::Inflight;
use super::entry::Entry;
use super::resends::settles_now;
use mq_log::Place3;
use mq_rules::{CountedByIdentifier, Fate, NoteRef};

/// How often S06 was put to the test, and what is kept to count each opener once. Its numbers are
/// changed at an event without a look at what is open.
#[derive(Drop)]
pub struct ResumedPlaces {
    counted: u32,
    // Openers that aren't counted, of what was open when the connection began.
    due: u32,
    // Those that aren't counted, of what is open.
    fresh: u32,
    // Those on the connection, of what is open.
    opened: u32,
    // Of what is open, that isn't counted which was opened from this position on.
    settled: u32,
}

// The identifier that an event opens or closes.
#[inline(always)]
fn moved(event: NoteRef<'_>) -> Option<u16>
    ensures { result ≡ resumings.moved (note_in event.entry) }
{
    event.opener().or(event.closer())
}

// The same, if its connection has this fate.
#[inline(always)]
fn moved_identifier(fate: Fate, event: NoteRef<'_>) -> Option<u16>
    ensures { result ≡ moved_on fate (note_in event.entry) }
{
    if fate.accepts() { moved(event) } else { None }
}

// Where what is open under an identifier was opened.
fn opener_place(entries: &CountedByIdentifier<Entry>, identifier: Option<u16>) -> Option<u32>
    ensures { result ≡ ended_at (value_under entries.now) identifier }
{
    match identifier {
        Some(i) => match entries.get(i) {
            Some(entry) => Some(entry.place.position),
            None => None,
        },
        None => None,
    }
}

// Whether what an event closes was opened from this position on.
#[inline(always)]
fn is_ended_since(ended: Option<u32>, from: u32) -> bool
    ensures { result ≡ is_some_and (nat_le from) ended }
{
    match ended {
        Some(at) => from <= at,
        None => false,
    }
}

// How many are open after an event, of those that were opened from a position on.
#[inline(always)]
fn still_open(from: u32, opens: bool, ended: Option<u32>, old: u32) -> u32
    ensures { old < 4294967295 → result ≡ remaining from opens ended old }
{
    let left = old.saturating_sub(u32::from(is_ended_since(ended, from)));
    left.saturating_add(u32::from(opens))
}

// Whether an event opens an identifier, if its connection has this fate.
#[inline(always)]
fn opens_one(fate: Fate, event: NoteRef<'_>) -> bool
    ensures { result ≡ (accepts fate && is_some (opener_of (note_in event.entry))) }
{
    fate.accepts() && event.opener().is_some()
}

impl ResumedPlaces {
    /// None before any event.
    pub fn new() -> Self
        ensures { (tested : TheTested) → CountsResumed result tested (Some Void) [] }
    {
        ResumedPlaces {
            counted: 0,
            due: 0,
            fresh: 0,
            opened: 0,
            settled: 0,
        }
    }

    /// How many places S06 has.
    pub fn places(&self) -> u32
        ensures { (tested : TheTested) (taken : Option TheFate) (past : List TheSeen) → CountsResumed self.now tested taken past → result ≡ places_under tested taken past S06 }
    {
        self.counted
    }

    // A connection of this fate begins: what is open is due. In a new session nothing is open.
    fn begin(&mut self, fate: Fate)
        ensures { self.new ≡ record self.old { due = self.old.fresh; fresh = cond (begins (Some fate)) 0 self.old.fresh; opened = 0 } }
    {
        self.due = self.fresh;
        if fate.begins() {
            self.fresh = 0;
        }
        self.opened = 0;
    }

    // A REST puts to the test what is due on the connection whose OPEN is here.
    fn settle(&mut self, opened: u32)
        ensures { self.old.counted + self.old.due < 4294967296 → self.new ≡ record self.old { counted = self.old.counted + self.old.due; due = 0; fresh = self.old.opened; settled = opened } }
    {
        self.counted = self.counted.saturating_add(self.due);
        self.due = 0;
        self.fresh = self.opened;
        self.settled = opened;
    }

    // An event opens an identifier, or closes what was opened at a position, on the connection
    // whose OPEN is here.
    fn go_on(&mut self, opens: bool, ended: Option<u32>, opened: u32)
        ensures same { self.new ≡ record self.old { fresh = self.new.fresh; opened = self.new.opened } }
        ensures fresh { self.old.fresh < 4294967295 → self.new.fresh ≡ remaining self.old.settled opens ended self.old.fresh }
        ensures opened { self.old.opened < 4294967295 → self.new.opened ≡ remaining opened opens ended self.old.opened }
    {
        self.fresh = still_open(self.settled, opens, ended, self.fresh);
        self.opened = still_open(opened, opens, ended, self.opened);
    }
}

/// Counts the places of S06 that turn out with an event of a connection that has this fate, which
/// is taken in after that.
#[inline(always)]
pub fn count_resumed(
    flight: &Inflight,
    places: &mut ResumedPlaces,
    at: Place3,
    decided: u32,
    fate: Fate,
    event: NoteRef<'_>,
)
    ensures { (tested : TheTested) (past : List TheSeen) → IsUnder tested fate decided (seen at (note_in event.entry)) past → IsUsing flight.now tested (fate_before tested fate (seen at (note_in event.entry)) past) past → CountsResumed places.old tested (fate_before tested fate (seen at (note_in event.entry)) past) past → CountsResumed places.new tested (Some fate) (seen at (note_in event.entry) ∷ past) }
{
    if event.is_open() {
        places.begin(fate);
        return;
    }
    let known = decided == at.position;
    if settles_now(fate, known, flight.ended, &flight.unanswered, event) {
        places.settle(flight.opened);
        return;
    }
    let ended = opener_place(&flight.entries, moved_identifier(fate, event));
    places.go_on(opens_one(fate, event), ended, flight.opened);
}

/// Counts what a packet that opens or closes this identifier changes, on a connection that is
/// accepted. It is no place of S06, but the places of a REST depend on it.
#[inline(always)]
pub fn count_moved(flight: &Inflight, places: &mut ResumedPlaces, opens: bool, identifier: u16)
    ensures same { places.new ≡ record places.old { fresh = places.new.fresh; opened = places.new.opened } }
    ensures fresh { places.old.fresh < 4294967295 → places.new.fresh ≡ remaining places.old.settled opens (ended_at (value_under flight.now.entries) (Some identifier)) places.old.fresh }
    ensures opened { places.old.opened < 4294967295 → places.new.opened ≡ remaining flight.now.opened opens (ended_at (value_under flight.now.entries) (Some identifier)) places.old.opened }
{
    let ended = opener_place(&flight.entries, Some(identifier));
    places.go_on(opens, ended, flight.opened);
}
