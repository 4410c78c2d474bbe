//! How many Reason Codes a SUBACK or UNSUBACK has (MQTT 5.0, sections 3.9.3 and 3.11.3).
ghost use Rattle.std.specs.Prelude.{refl};
ghost use Rattle.std.specs.Prelude.{◌≡◌, ◌&&◌, ◌||◌, ◌==◌, ℕ, Bool, not, OnOk, [], Some};
ghost use Rattle.mq_rules.specs.declared.role.Role.{Role as TheRole};
ghost use Rattle.mq_rules.specs.declared.rule.Rule.{Rule as TheRule};
ghost use Rattle.mq_rules.specs.declared.rule.Rule.TheVariants.{B03, B04};
ghost use Rattle.mq_rules.specs.declared.fate.Fate.TheVariants.{Void};
ghost use Rattle.mq_rules.specs.Moments.{Moment};
ghost use Rattle.mq_rules.specs.Notes.{note_in, is_boundary as boundary};
ghost use Rattle.mq_rules.specs.Connections.{accepts};
ghost use Rattle.mq_rules.specs.Statements.{statement, in_session};
ghost use Rattle.mq_rules.specs.Subscriptions.{applies_B03, applies_B04, breaks_B03, breaks_B04};
ghost use Rattle.mq_rules.specs.Occasions.{occasion, places_under};
ghost use Rattle.mq_rules.specs.Rules.{same_rule, binds as is_bound};
ghost use Rattle.mq_rules.specs.Faults.{offset_of};
ghost use Rattle.mq_rules.specs.KeptOrder.{value_under};
ghost use Rattle.std.specs.Prelude.{Option, None};
ghost use Rattle.mq_subscriptions.specs.Concerns.{concerns_count};
ghost use Rattle.mq_subscriptions.specs.Burden.{unanswered_ids};
ghost use Rattle.mq_subscriptions.specs.Weights.{counts_weighs};
ghost use Rattle.mq_fates.specs.Placings.{on_session};
ghost use Rattle.mq_subscriptions.specs.Countings.{Counting, IsCounting, IsCounted, counted_next, differs, answers_one, answers_kept, B03_asks, B04_asks, subscribes, unsubscribes, subscribe_request as the_subscribe, suback_reply as the_suback, unsubscribe_request as the_unsubscribe, unsuback_reply as the_unsuback, subscribes_so, unsubscribes_so};

use mq_fates::{Asks, Discerning, Fated, Selective, Taken, judge_by};
use mq_log::Place3;
use mq_rules::{
    CountedByIdentifier, Fate, Faults, Memory, Note, NoteRef, Noted, PacketFields, Rule, Tested,
    places_after,
};
use std::alloc::Global;
use std::marker::PhantomData;

/// The Packet Identifier of a packet, and how many filters or Reason Codes it has.
#[derive(Clone, Copy, Debug)]
pub struct Counted {
    /// The Packet Identifier.
    pub identifier: u16,
    /// How many filters or Reason Codes there are.
    pub count: usize,
}

/// Packets with filters, and the packets that answer them with a Reason Code for each.
pub trait Replies {
    /// What has filters, and what answers it.
    ghost counting: { Counting };
    /// The statement that there is a Reason Code for each filter.
    ghost judged: { TheRule };
    /// Where that is false.
    ghost breaks: { Moment → Bool };
    /// Where it is put to the test.
    ghost applies: { Moment → Bool };

    /// A packet with filters that is received.
    fn request(event: &NoteRef<'_>) -> Option<Counted>
        ensures { result ≡ counting.request (note_in event.now) };

    /// A packet that is sent and answers one.
    fn reply(event: &NoteRef<'_>) -> Option<Counted>
        ensures { result ≡ counting.reply (note_in event.now) };

    /// The statement that there is a Reason Code for each filter.
    fn judged() -> Rule
        ensures { result ≡ judged };

    /// The table says the same.
    ghost says: { (role : TheRole) → statement role judged ≡ in_session (λ f. breaks) };
    /// A fault has no offset.
    ghost no_offset: { (role : TheRole) (m : Option Moment) → offset_of (statement role judged) m ≡ None };
    /// The table of occasions says the same.
    ghost tries: { (role : TheRole) → occasion role judged ≡ Some (in_session (λ f. applies)) };
    /// It is where what answers has something to answer.
    ghost asks: { (m : Moment) → applies m ≡ answers_one counting m };
    /// The statement compares the two counts.
    ghost compares: { IsCounting counting breaks };
}

// Whether a network connection begins or ends.
fn is_boundary(event: NoteRef<'_>) -> bool
    ensures { result ≡ boundary (note_in event.entry) }
{
    event.is_open() || event.is_close()
}

// Keeps the count of the first packet of an identifier that isn't answered. All are forgotten where
// a connection begins and where it ends, since a packet is answered on its own connection.
fn keep_count(
    counts: &mut CountedByIdentifier<usize>,
    boundary: bool,
    request: Option<Counted>,
    reply: Option<Counted>,
) -> Result<(), Memory>
    ensures { OnOk result ((i : ℕ) → value_under counts.new i ≡ counted_next boundary request reply i (value_under counts.old i)) }
{
    if boundary {
        counts.clear();
    }
    if let Some(answered) = reply {
        counts.remove(answered.identifier);
    }
    if let Some(asked) = request {
        if !counts.contains(asked.identifier) {
            counts.insert(asked.identifier, asked.count)?;
        }
    }
    Ok(())
}

// Whether a packet answers one whose count is another.
fn is_other(counts: &CountedByIdentifier<usize>, reply: Option<Counted>) -> bool
    ensures { result ≡ differs (value_under counts.now) reply }
{
    let Some(given) = reply else {
        return false;
    };
    match counts.get(given.identifier) {
        Some(asked) => asked != given.count,
        None => false,
    }
}

// Whether an answer has another number of codes than were asked for, on a connection that is
// accepted, if the statement is judged.
fn is_broken(
    bound: bool,
    fate: Fate,
    counts: &CountedByIdentifier<usize>,
    reply: Option<Counted>,
) -> bool
    ensures { result ≡ (bound && (accepts fate && differs (value_under counts.now) reply)) }
{
    bound && (fate.accepts() && is_other(counts, reply))
}

/// Watches that there are as many Reason Codes as filters.
#[derive(Drop)]
pub struct Counts<R: Replies> {
    bound: bool,
    fate: Fate,
    counts: CountedByIdentifier<usize>,
    replies: PhantomData<R>,
}

impl<R: Replies> Counts<R> {
    /// Nothing waits for an answer.
    pub fn new(alloc: Global, tested: Tested) -> Self
        ensures { ⟦<Counts<R> as Fated>⟧.agrees result tested (Some Void) [] }
    {
        Counts {
            bound: R::judged().is_judged(tested),
            fate: Fate::Void,
            counts: CountedByIdentifier::new(alloc),
            replies: PhantomData,
        }
    }
}

impl<R: Replies> Fated for Counts<R> {
    ghost agrees = { λ s tested taken past. (s.bound ≡ is_bound R.judged tested) × IsCounted R.counting s.fate (value_under s.counts) taken past };

    ghost judges = { λ r. same_rule r R.judged };

    ghost weighs = { counts_weighs };

    ghost bound = { λ tested taken past. unanswered_ids R.counting.exchange past };

    fn fated<E: Taken>(
        &mut self,
        at: Place3,
        decided: u32,
        fate: Fate,
        event: &E,
        faults: &mut Faults,
    ) -> Result<(), Memory> {
        let event = event.as_ref();
        let reply = R::reply(&event);
        let broken = is_broken(self.bound, fate, &self.counts, reply);
        let boundary = is_boundary(event);
        keep_count(&mut self.counts, boundary, R::request(&event), reply)?;
        self.fate = fate;
        judge_by(R::judged(), broken, at, decided, faults)?;
        Ok(())
    }

    // The one table of the struct.
    fn weight(&self) -> usize {
        self.counts.len()
    }
}

impl<R: Replies> Selective for Counts<R> {
    ghost concerns = { λ tested. concerns_count R.counting };

    fn passes(&self) {}

    #[inline(always)]
    fn may_concern<E: Taken>(&self, event: &E) -> bool {
        let event = event.as_ref();
        is_boundary(event) || R::request(&event).is_some() || R::reply(&event).is_some()
    }
}

// Whether a packet answers one whose count is kept.
fn is_asked_for(counts: &CountedByIdentifier<usize>, reply: Option<Counted>) -> bool
    ensures { result ≡ answers_kept (value_under counts.now) reply }
{
    match reply {
        Some(given) => counts.contains(given.identifier),
        None => false,
    }
}

// Whether the statement is judged, and an answer of an accepted connection has something to answer.
fn is_put_to_test(
    bound: bool,
    fate: Fate,
    counts: &CountedByIdentifier<usize>,
    reply: Option<Counted>,
) -> bool
    ensures { result ≡ (bound && (accepts fate && answers_kept (value_under counts.now) reply)) }
{
    bound && (fate.accepts() && is_asked_for(counts, reply))
}

impl<R: Replies> Asks for Counts<R> {
    type Places = u32;

    ghost counted = { ⟦<Counts<R> as Fated>⟧.judges };

    ghost counts = { λ n tested taken past. n ≡ places_under tested taken past R.judged };

    ghost on_sessions = { λ role rule judged. on_session role R.judged rule (λ f. R.applies) (R.tries role) judged };

    fn tests(rule: Rule) -> bool {
        rule == R::judged()
    }

    fn no_places() -> u32 {
        0
    }

    #[inline(always)]
    fn count<E: Taken>(&self, places: &mut u32, at: Place3, _: u32, fate: Fate, event: &E) {
        let here = is_put_to_test(self.bound, fate, &self.counts, R::reply(&event.as_ref()));
        *places = places_after(here, *places, at.position);
    }

    fn places_of(places: &u32, _: Rule) -> u32 {
        *places
    }
}

impl<R: Replies> Discerning for Counts<R> {
    fn leaves_out(&self) {}
}

/// SUBSCRIBE and SUBACK: B03.
#[derive(Drop)]
pub struct Subacks;

// How many filters a SUBSCRIBE has.
fn subscribe_request(note: &Note) -> Option<Counted>
    ensures { result ≡ the_subscribe note.now }
{
    match note.received_fields() {
        Some(
            PacketFields::Subscribe {
                identifier,
                filters,
                ..
            },
        ) => Some(Counted {
            identifier: *identifier,
            count: filters.len(),
        }),
        _ => None,
    }
}

// How many Reason Codes a SUBACK has.
fn suback_reply(note: &Note) -> Option<Counted>
    ensures { result ≡ the_suback note.now }
{
    match note.sent_fields() {
        Some(PacketFields::Suback { identifier, codes }) => Some(Counted {
            identifier: *identifier,
            count: codes.len(),
        }),
        _ => None,
    }
}

impl Replies for Subacks {
    ghost counting = { subscribes };

    ghost judged = { B03 };

    ghost breaks = { breaks_B03 };

    ghost applies = { applies_B03 };

    #[inline(always)]
    #[tactic(auto, unfolding(mq_rules::specs::Notes::note_of_bare))]
    fn request(event: &NoteRef<'_>) -> Option<Counted> {
        match event {
            NoteRef::Kept(note) => subscribe_request(note),
            NoteRef::Bare(_) => None,
        }
    }

    #[inline(always)]
    #[tactic(auto, unfolding(mq_rules::specs::Notes::note_of_bare))]
    fn reply(event: &NoteRef<'_>) -> Option<Counted> {
        match event {
            NoteRef::Kept(note) => suback_reply(note),
            NoteRef::Bare(_) => None,
        }
    }

    fn judged() -> Rule {
        Rule::B03
    }

    ghost says = { λ role. refl };

    ghost no_offset = { λ role m. refl };

    ghost tries = { λ role. refl };

    ghost asks = { B03_asks };

    ghost compares = { subscribes_so };
}

/// UNSUBSCRIBE and UNSUBACK: B04.
#[derive(Drop)]
pub struct Unsubacks;

// How many filters an UNSUBSCRIBE has.
fn unsubscribe_request(note: &Note) -> Option<Counted>
    ensures { result ≡ the_unsubscribe note.now }
{
    match note.received_fields() {
        Some(
            PacketFields::Unsubscribe {
                identifier,
                filters,
            },
        ) => Some(Counted {
            identifier: *identifier,
            count: filters.len(),
        }),
        _ => None,
    }
}

// How many Reason Codes an UNSUBACK has.
fn unsuback_reply(note: &Note) -> Option<Counted>
    ensures { result ≡ the_unsuback note.now }
{
    match note.sent_fields() {
        Some(PacketFields::Unsuback { identifier, codes }) => Some(Counted {
            identifier: *identifier,
            count: codes.len(),
        }),
        _ => None,
    }
}

impl Replies for Unsubacks {
    ghost counting = { unsubscribes };

    ghost judged = { B04 };

    ghost breaks = { breaks_B04 };

    ghost applies = { applies_B04 };

    #[inline(always)]
    #[tactic(auto, unfolding(mq_rules::specs::Notes::note_of_bare))]
    fn request(event: &NoteRef<'_>) -> Option<Counted> {
        match event {
            NoteRef::Kept(note) => unsubscribe_request(note),
            NoteRef::Bare(_) => None,
        }
    }

    #[inline(always)]
    #[tactic(auto, unfolding(mq_rules::specs::Notes::note_of_bare))]
    fn reply(event: &NoteRef<'_>) -> Option<Counted> {
        match event {
            NoteRef::Kept(note) => unsuback_reply(note),
            NoteRef::Bare(_) => None,
        }
    }

    fn judged() -> Rule {
        Rule::B04
    }

    ghost says = { λ role. refl };

    ghost no_offset = { λ role m. refl };

    ghost tries = { λ role. refl };

    ghost asks = { B04_asks };

    ghost compares = { unsubscribes_so };
}
