//! How often the statements on identifiers are put to the test.
ghost use Rattle.std.specs.Prelude.{◌≡◌, ◌<◌, Bool, true, false, [], ◌∷◌, Some, None, List, Option, nat_eq, is_some};
ghost use Rattle.std.specs.List.{list_any};
ghost use Rattle.mq_rules.specs.KeptOrder.{value_under, values_of};
ghost use Rattle.mq_log.specs.declared.place.Place3.{Place3 as ThePlace};
ghost use Rattle.mq_rules.specs.declared.role.Tested.{Tested as TheTested};
ghost use Rattle.mq_rules.specs.declared.fate.Fate.{Fate as TheFate};
ghost use Rattle.mq_rules.specs.declared.fate.Fate.TheVariants.{Void};
ghost use Rattle.mq_rules.specs.declared.note.Note.{Note as TheNote};
ghost use Rattle.mq_rules.specs.declared.note.Seen.{Seen as TheSeen};
ghost use Rattle.mq_rules.specs.Words.{is_some_and};
ghost use Rattle.mq_rules.specs.Connections.{accepts};
ghost use Rattle.mq_rules.specs.Notes.{note_in, note_of_bare, resend_of};
ghost use Rattle.mq_rules.specs.Under.{seen, IsUnder, fate_before};
ghost use Rattle.mq_rules.specs.Occasions.{places_under};
ghost use Rattle.mq_inflight.specs.Using.{is_taken as taken, is_at_once as judged_at_once, is_inflight, past_pubrel, IsUsing};
ghost use Rattle.mq_inflight.specs.Tried as tried;
ghost use Rattle.mq_inflight.specs.Tried.{CountsAtOnce, on_inflight};
ghost use Rattle.mq_inflight.specs.InflightPlaces.{CountsInflight};
ghost use Rattle.mq_inflight.specs.Moving.{Moves};

use super::Inflight;
use super::broken::{is_held, is_taken};
use super::entry::Entry;
use super::moving::opened_by;
use super::resends::passed_since;
use super::resuming::{ResumedPlaces, count_moved, count_resumed};
use super::values::values_in;
use indexmap::IndexSet;
use mq_fates::{Asks, Discerning, Fated, Taken, excuse, pick};
use mq_log::{Direction, Place3};
use mq_rules::{
    Bare, BareFields, CountedByIdentifier, Fate, Faults, Memory, NoteRef, Noted, Rule, places_after,
};

/// How often S01 to S05 were put to the test.
#[derive(Drop)]
pub struct AtOncePlaces {
    // S01: identifiers taken while something was in use.
    taking: u32,
    // S02: PUBLISH packets sent again, while none was cut off.
    resending: u32,
    // S03: PUBLISH packets sent again.
    repeating: u32,
    // S04: what was sent again after its PUBREL.
    released: u32,
    // S05: what was sent again after something else that was open.
    ordering: u32,
}

// Whether some identifier is among these.
fn has_any(identifiers: &IndexSet<u16>) -> bool
    ensures { result ≡ tried.has_any identifiers.now.keys }
{
    !identifiers.is_empty()
}

// Whether something is open that can't have been discarded. Identifiers mostly go round, so what
// comes before this one is looked at first: the search from the least one can be long.
fn is_any_taken(entries: &CountedByIdentifier<Entry>, since: u32, identifier: u16) -> bool
    ensures { result ≡ list_any (λ o. taken since o) (values_of (value_under entries.now)) }
{
    if is_held(entries, since, identifier.wrapping_sub(1)) {
        return true;
    }
    for entry in values_in(entries) {
        if is_taken(&entry, since) {
            return true;
        }
    }
    false
}

impl Inflight {
    // Whether something is in use on a connection of this fate, where this identifier is taken.
    fn has_any_used(&self, fate: Fate, identifier: u16) -> bool
        ensures { result ≡ tried.any_used self.now fate }
    {
        (has_any(&self.subscribing) || has_any(&self.unsubscribing))
            || is_any_taken(
                &self.entries,
                passed_since(fate, self.bounds, self.opened, self.bounded),
                identifier,
            )
    }

    // Whether an event puts S01 to the test: it takes an identifier while something is in use.
    #[inline(always)]
    fn tries_taking(&self, fate: Fate, known: bool, event: NoteRef<'_>) -> bool
        ensures { result ≡ tried.tries_taking self.now fate known (note_in event.entry) }
    {
        let taking = fate.accepts()
            && match event.taken_identifier(self.role) {
                Some(i) => self.has_any_used(fate, i),
                None => false,
            };
        excuse(fate.is_unasked(), known, taking)
    }

    // Whether it puts S02 to the test: it sends a PUBLISH again, and none was cut off.
    #[inline(always)]
    fn tries_resending(&self, fate: Fate, known: bool, event: NoteRef<'_>) -> bool
        ensures { result ≡ tried.tries_resending self.now fate known (note_in event.entry) }
    {
        let resending = fate.accepts()
            && (event.resend().is_some() && !(self.earlier.cut_on_void || self.earlier.cut));
        excuse(fate.surprises(), known, resending)
    }

    // Whether an identifier is open by a PUBLISH of QoS 2 whose PUBREL was sent since.
    fn is_released(&self, i: u16) -> bool
        ensures { result ≡ past_pubrel (value_under self.now.entries) i }
    {
        match self.entries.get(i) {
            Some(entry) => entry.exactly_once && entry.released,
            None => false,
        }
    }

    // Whether it puts S04 to the test: it sends such a PUBLISH again, or its PUBREL.
    #[inline(always)]
    fn tries_released(&self, fate: Fate, event: NoteRef<'_>) -> bool
        ensures { result ≡ tried.tries_released self.now fate (note_in event.entry) }
    {
        fate.accepts()
            && match event.resend().or(event.sent_pubrel()) {
                Some(i) => self.is_released(i),
                None => false,
            }
    }

    // Whether what is sent again is open.
    #[inline(always)]
    fn is_open_again(&self, event: NoteRef<'_>) -> bool
        ensures { result ≡ is_some_and (λ i. is_some (value_under self.now.entries i)) (resend_of (note_in event.entry)) }
    {
        match event.resend() {
            Some(i) => self.entries.contains(i),
            None => false,
        }
    }

    // Whether it puts S05 to the test: it sends again what is open, after another such PUBLISH.
    #[inline(always)]
    fn tries_ordering(&self, fate: Fate, event: NoteRef<'_>) -> bool
        ensures { result ≡ tried.tries_ordering self.now fate (note_in event.entry) }
    {
        self.ordered && (fate.accepts() && (self.is_open_again(event) && 0 < self.resent))
    }
}

// Whether an event puts S03 to the test: it sends a PUBLISH again.
#[inline(always)]
fn tries_repeating(fate: Fate, event: NoteRef<'_>) -> bool
    ensures { result ≡ tried.tries_repeating fate (note_in event.entry) }
{
    fate.accepts() && event.resend().is_some()
}

/// Counts the places of S01 to S05 that turn out with an event of a connection that has this fate,
/// which is taken in after that.
#[inline(always)]
pub fn count_at_once(
    flight: &Inflight,
    places: &mut AtOncePlaces,
    at: Place3,
    decided: u32,
    fate: Fate,
    event: NoteRef<'_>,
)
    ensures { (tested : TheTested) (past : List TheSeen) → IsUnder tested fate decided (seen at (note_in event.entry)) past → IsUsing flight.now tested (fate_before tested fate (seen at (note_in event.entry)) past) past → CountsAtOnce places.old tested (fate_before tested fate (seen at (note_in event.entry)) past) past → CountsAtOnce places.new tested (Some fate) (seen at (note_in event.entry) ∷ past) }
{
    let known = decided == at.position;
    let taking = flight.tries_taking(fate, known, event);
    let resending = flight.tries_resending(fate, known, event);
    let repeating = tries_repeating(fate, event);
    let released = flight.tries_released(fate, event);
    let ordering = flight.tries_ordering(fate, event);
    places.taking = places_after(taking, places.taking, at.position);
    places.resending = places_after(resending, places.resending, at.position);
    places.repeating = places_after(repeating, places.repeating, at.position);
    places.released = places_after(released, places.released, at.position);
    places.ordering = places_after(ordering, places.ordering, at.position);
}

impl AtOncePlaces {
    /// None before any event.
    pub fn new() -> Self
        ensures { (tested : TheTested) → CountsAtOnce result tested (Some Void) [] }
    {
        AtOncePlaces {
            taking: 0,
            resending: 0,
            repeating: 0,
            released: 0,
            ordering: 0,
        }
    }

    /// How many places one of S01 to S05 has.
    pub fn places(&self, rule: Rule) -> u32
        ensures { (tested : TheTested) (taken : Option TheFate) (past : List TheSeen) → CountsAtOnce self.now tested taken past → judged_at_once rule ≡ true → result ≡ places_under tested taken past rule }
    {
        let last = pick(rule == Rule::S04, self.released, self.ordering);
        let later = pick(rule == Rule::S03, self.repeating, last);
        let others = pick(rule == Rule::S02, self.resending, later);
        pick(rule == Rule::S01, self.taking, others)
    }
}

// Whether a statement is one of S01 to S05.
fn is_at_once(rule: Rule) -> bool
    ensures { result ≡ judged_at_once rule }
{
    rule == Rule::S01
        || (rule == Rule::S02 || (rule == Rule::S03 || (rule == Rule::S04 || rule == Rule::S05)))
}

/// How often S01 to S06 were put to the test.
#[derive(Drop)]
pub struct InflightPlaces {
    at_once: AtOncePlaces,
    resumed: ResumedPlaces,
}

impl Asks for Inflight {
    type Places = InflightPlaces;

    ghost counts = { CountsInflight };

    ghost counted = { is_inflight };

    ghost on_sessions = { on_inflight };

    fn tests(rule: Rule) -> bool {
        is_at_once(rule) || rule == Rule::S06
    }

    fn no_places() -> InflightPlaces {
        InflightPlaces {
            at_once: AtOncePlaces::new(),
            resumed: ResumedPlaces::new(),
        }
    }

    #[inline(always)]
    fn count<E: Taken>(
        &self,
        places: &mut InflightPlaces,
        at: Place3,
        decided: u32,
        fate: Fate,
        event: &E,
    ) {
        let event = event.as_ref();
        count_at_once(self, &mut places.at_once, at, decided, fate, event);
        count_resumed(self, &mut places.resumed, at, decided, fate, event);
    }

    // A call of its own: inlined it is much.
    #[inline(never)]
    fn count_and_take<E: Taken>(
        &mut self,
        places: &mut InflightPlaces,
        at: Place3,
        decided: u32,
        fate: Fate,
        event: &E,
        faults: &mut Faults,
    ) -> Result<(), Memory> {
        self.count_quickly(places, at, decided, fate, event.as_ref());
        self.fated(at, decided, fate, event, faults)
    }

    fn places_of(places: &InflightPlaces, rule: Rule) -> u32 {
        pick(
            is_at_once(rule),
            places.at_once.places(rule),
            places.resumed.places(),
        )
    }
}

impl Discerning for Inflight {
    fn leaves_out(&self) {}
}

impl Inflight {
    // Counts a new PUBLISH under an identifier, on a connection that is accepted: of S01 to S05 it
    // can put only S01 to the test.
    #[inline(always)]
    fn count_new(&self, places: &mut InflightPlaces, at: Place3, fate: Fate, identifier: u16)
        ensures { accepts fate ≡ true → (n : TheNote) (exactly_once : Bool) (tested : TheTested) (past : List TheSeen) → Moves n (Some identifier) exactly_once None None None → IsUnder tested fate at.position (seen at n) past → IsUsing self.now tested (fate_before tested fate (seen at n) past) past → CountsInflight places.old tested (fate_before tested fate (seen at n) past) past → CountsInflight places.new tested (Some fate) (seen at n ∷ past) }
    {
        let taking = self.has_any_used(fate, identifier);
        places.at_once.taking = places_after(taking, places.at_once.taking, at.position);
        count_moved(self, &mut places.resumed, true, identifier);
    }

    // Counts that an identifier is set free, on a connection that is accepted: it puts none of S01
    // to S05 to the test.
    #[inline(always)]
    fn count_freed(&self, places: &mut InflightPlaces, identifier: u16)
        ensures { (n : TheNote) (at : ThePlace) (fate : TheFate) (tested : TheTested) (past : List TheSeen) → accepts fate ≡ true → at.position < 4294967296 → Moves n None false (Some identifier) None None → IsUnder tested fate at.position (seen at n) past → IsUsing self.now tested (fate_before tested fate (seen at n) past) past → CountsInflight places.old tested (fate_before tested fate (seen at n) past) past → CountsInflight places.new tested (Some fate) (seen at n ∷ past) }
    {
        count_moved(self, &mut places.resumed, false, identifier);
    }

    // Counts any bare packet, in a call of its own: most are new ones, or set an
    // identifier free.
    #[inline(never)]
    fn count_other(&self, places: &mut InflightPlaces, at: Place3, fate: Fate, bare: Bare<'_>)
        ensures { (tested : TheTested) (past : List TheSeen) → IsUnder tested fate at.position (seen at (note_of_bare bare.entry)) past → IsUsing self.now tested (fate_before tested fate (seen at (note_of_bare bare.entry)) past) past → CountsInflight places.old tested (fate_before tested fate (seen at (note_of_bare bare.entry)) past) past → CountsInflight places.new tested (Some fate) (seen at (note_of_bare bare.entry) ∷ past) }
    {
        self.count(places, at, at.position, fate, &bare);
    }

    // Counts an event: most are bare packets.
    #[inline(always)]
    fn count_quickly(
        &self,
        places: &mut InflightPlaces,
        at: Place3,
        decided: u32,
        fate: Fate,
        event: NoteRef<'_>,
    )
        ensures { (tested : TheTested) (past : List TheSeen) → IsUnder tested fate decided (seen at (note_in event.entry)) past → IsUsing self.now tested (fate_before tested fate (seen at (note_in event.entry)) past) past → CountsInflight places.old tested (fate_before tested fate (seen at (note_in event.entry)) past) past → CountsInflight places.new tested (Some fate) (seen at (note_in event.entry) ∷ past) }
    {
        match event {
            NoteRef::Bare(bare) if decided == at.position => self.count_bare(
                places, at, fate, bare,
            ),
            NoteRef::Bare(bare) => self.count(places, at, decided, fate, &bare),
            NoteRef::Kept(note) => self.count(places, at, decided, fate, note),
        }
    }

    // Counts a bare packet of a connection that was decided before it.
    #[inline(always)]
    fn count_bare(&self, places: &mut InflightPlaces, at: Place3, fate: Fate, bare: Bare<'_>)
        ensures { (tested : TheTested) (past : List TheSeen) → IsUnder tested fate at.position (seen at (note_of_bare bare.entry)) past → IsUsing self.now tested (fate_before tested fate (seen at (note_of_bare bare.entry)) past) past → CountsInflight places.old tested (fate_before tested fate (seen at (note_of_bare bare.entry)) past) past → CountsInflight places.new tested (Some fate) (seen at (note_of_bare bare.entry) ∷ past) }
    {
        if !fate.accepts() {
            self.count_other(places, at, fate, bare);
            return;
        }
        match bare.direction {
            Direction::Sent => match bare.fields {
                BareFields::Publish {
                    identifier,
                    qos,
                    duplicate,
                    ..
                } => match opened_by(identifier, qos, duplicate) {
                    Some(i) => self.count_new(places, at, fate, i),
                    None => self.count_other(places, at, fate, bare),
                },
                _ => self.count_other(places, at, fate, bare),
            },
            Direction::Recv => match bare.fields {
                BareFields::Puback { identifier, .. } => self.count_freed(places, identifier),
                BareFields::Pubcomp { identifier, .. } => self.count_freed(places, identifier),
                _ => self.count_other(places, at, fate, bare),
            },
        }
    }
}
