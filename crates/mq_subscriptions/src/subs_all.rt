//! What a server may deliver and how it answers what asks for it: B01 to B09, P01, P02,
//! R01 and R02.
ghost use Rattle.std.specs.Prelude.{◌≡◌, ◌&&◌, ◌||◌, [], Some, is_some};
ghost use Rattle.mq_rules.specs.declared.rule.Rule.TheVariants.{B01, B07};
ghost use Rattle.mq_rules.specs.declared.fate.Fate.TheVariants.{Void};
ghost use Rattle.mq_rules.specs.declared.role.Tested.{Tested as TheTested};
ghost use Rattle.mq_rules.specs.Notes.{note_in, receives_unclear, sent_connack};
ghost use Rattle.mq_subscriptions.specs.Grouping.{of_subscriptions, on_subscriptions};

use crate::counts::{Counts, Replies, Subacks, Unsubacks};
use crate::deletions::Deletions;
use crate::grants::Grants;
use crate::matching::Matching;
use crate::subs::Deliveries;
use mq_fates::{Asks, Discerning, Fated, Selecting, Selective, Taken, fated_apart};
use mq_log::Place3;
use mq_rules::{Both, Fate, Faults, Memory, Note, NoteRef, Noted, Rule, Tested};
use std::alloc::Global;

/// Watches B01 to B09, P01, P02, R01 and R02.
pub struct Subs {
    watchers: Both<
        Deliveries,
        Both<
            Selecting<Counts<Subacks>>,
            Both<Selecting<Counts<Unsubacks>>, Both<Selecting<Grants>, Both<Deletions, Matching>>>,
        >,
    >,
}

// As a derived one, but a call of its own.
impl Drop for Subs {
    #[inline(never)]
    fn drop(self) {
        let Subs {
            watchers: _watchers,
        } = self;
    }
}

// Two watchers as one, before any event. They are of any types, so that what each keeps needn't be
// spelled out where they are put together.
fn beside<A: Fated, B: Fated>(a: A, b: B) -> Both<A, B>
    ensures { (tested : TheTested) → A.agrees a tested (Some Void) [] → B.agrees b tested (Some Void) [] → ⟦<Both<A, B> as Fated>⟧.agrees result tested (Some Void) [] }
{
    Both::new(a, b)
}

// One that counts Reason Codes, before any event.
fn counting<R: Replies>(alloc: Global, tested: Tested) -> Selecting<Counts<R>>
    ensures { ⟦<Selecting<Counts<R>> as Fated>⟧.agrees result tested (Some Void) [] }
{
    Selecting::new(Counts::new(alloc, tested))
}

// One of what is granted, before any event.
fn granting(alloc: Global, tested: Tested) -> Selecting<Grants>
    ensures { ⟦<Selecting<Grants> as Fated>⟧.agrees result tested (Some Void) [] }
{
    Selecting::new(Grants::new(alloc, tested))
}

// The watchers of what an UNSUBACK says, and of the subscriptions that match a delivery, before any
// event.
fn deleting_and_matching(alloc: Global, tested: Tested) -> Both<Deletions, Matching>
    ensures { ⟦<Both<Deletions, Matching> as Fated>⟧.agrees result tested (Some Void) [] }
{
    beside(Deletions::new(alloc, tested), Matching::new(alloc, tested))
}

// The watchers of statements that are judged only on request, before any event.
fn on_request(alloc: Global, tested: Tested) -> Both<Selecting<Grants>, Both<Deletions, Matching>>
    ensures { ⟦<Both<Selecting<Grants>, Both<Deletions, Matching>> as Fated>⟧.agrees result tested (Some Void) [] }
{
    let others = deleting_and_matching(alloc, tested);
    beside(granting(alloc, tested), others)
}

// The watchers of SUBACKs and UNSUBACKs, before any event.
fn answering(
    alloc: Global,
    tested: Tested,
) -> Both<
    Selecting<Counts<Subacks>>,
    Both<Selecting<Counts<Unsubacks>>, Both<Selecting<Grants>, Both<Deletions, Matching>>>,
>
    ensures { ⟦<Both<Selecting<Counts<Subacks>>, Both<Selecting<Counts<Unsubacks>>, Both<Selecting<Grants>, Both<Deletions, Matching>>>> as Fated>⟧.agrees result tested (Some Void) [] }
{
    let others = beside(counting(alloc, tested), on_request(alloc, tested));
    beside(counting(alloc, tested), others)
}

impl Subs {
    /// No filter stands, and nothing waits for an answer.
    pub fn new(alloc: Global, tested: Tested) -> Self
        ensures { ⟦<Subs as Fated>⟧.agrees result tested (Some Void) [] }
    {
        Subs {
            watchers: beside(Deliveries::new(alloc, tested), answering(alloc, tested)),
        }
    }
}

impl Fated for Subs {
    ghost agrees = { λ s. ⟦<Both<Deliveries, Both<Selecting<Counts<Subacks>>, Both<Selecting<Counts<Unsubacks>>, Both<Selecting<Grants>, Both<Deletions, Matching>>>>> as Fated>⟧.agrees s.watchers };

    ghost judges = { ⟦<Both<Deliveries, Both<Selecting<Counts<Subacks>>, Both<Selecting<Counts<Unsubacks>>, Both<Selecting<Grants>, Both<Deletions, Matching>>>>> as Fated>⟧.judges };

    ghost weighs = { λ s. ⟦<Both<Deliveries, Both<Selecting<Counts<Subacks>>, Both<Selecting<Counts<Unsubacks>>, Both<Selecting<Grants>, Both<Deletions, Matching>>>>> as Fated>⟧.weighs s.watchers };

    ghost bound = { ⟦<Both<Deliveries, Both<Selecting<Counts<Subacks>>, Both<Selecting<Counts<Unsubacks>>, Both<Selecting<Grants>, Both<Deletions, Matching>>>>> as Fated>⟧.bound };

    // A call of its own: few packets concern it.
    #[inline(always)]
    fn fated<E: Taken>(
        &mut self,
        at: Place3,
        decided: u32,
        fate: Fate,
        event: &E,
        faults: &mut Faults,
    ) -> Result<(), Memory> {
        let event = event.as_ref();
        fated_apart(&mut self.watchers, at, decided, fate, event, faults)
    }

    fn weight(&self) -> usize {
        self.watchers.weight()
    }
}

// Whether a CONNACK is sent.
fn sends_connack(note: &Note) -> bool
    ensures { result ≡ is_some (sent_connack note.now) }
{
    match note.sent_connack() {
        Some(_) => true,
        None => false,
    }
}

// Whether bytes are received that may be a request that nobody can read, or a CONNACK is sent.
fn tells_more(note: &Note) -> bool
    ensures { result ≡ (receives_unclear note.now || is_some (sent_connack note.now)) }
{
    note.receives_unclear() || sends_connack(note)
}

// The same of any event. A bare packet is neither.
#[inline(always)]
fn is_telling(event: NoteRef<'_>) -> bool
    ensures { result ≡ (receives_unclear (note_in event.entry) || is_some (sent_connack (note_in event.entry))) }
{
    match event {
        NoteRef::Kept(note) => tells_more(note),
        NoteRef::Bare(_) => false,
    }
}

// Whether an event may concern the watchers, given whether it may concern those that look at no
// such event, and whether those that do are to judge.
#[inline(always)]
fn may_tell(first: bool, further: bool, event: NoteRef<'_>) -> bool
    ensures { result ≡ (first || (further && (receives_unclear (note_in event.entry) || is_some (sent_connack (note_in event.entry))))) }
{
    first || (further && is_telling(event))
}

impl Selective for Subs {
    ghost concerns = { ⟦<Both<Deliveries, Both<Selecting<Counts<Subacks>>, Both<Selecting<Counts<Unsubacks>>, Both<Selecting<Grants>, Both<Deletions, Matching>>>>> as Selective>⟧.concerns };

    fn passes(&self) {
        self.watchers.passes();
    }

    #[inline(always)]
    fn may_concern<E: Taken>(&self, event: &E) -> bool {
        let first = event.may_concern_subscriptions(self.watchers.a.is_bound());
        may_tell(first, self.watchers.b.b.b.b.a.is_bound(), event.as_ref())
    }
}

impl Asks for Subs {
    type Places = <Both<
        Deliveries,
        Both<
            Selecting<Counts<Subacks>>,
            Both<Selecting<Counts<Unsubacks>>, Both<Selecting<Grants>, Both<Deletions, Matching>>>,
        >,
    > as Asks>::Places;

    ghost counts = { ⟦<Both<Deliveries, Both<Selecting<Counts<Subacks>>, Both<Selecting<Counts<Unsubacks>>, Both<Selecting<Grants>, Both<Deletions, Matching>>>>> as Asks>⟧.counts };

    ghost counted = { of_subscriptions };

    ghost on_sessions = { on_subscriptions };

    fn tests(rule: Rule) -> bool {
        <Both<
            Deliveries,
            Both<
                Selecting<Counts<Subacks>>,
                Both<
                    Selecting<Counts<Unsubacks>>,
                    Both<Selecting<Grants>, Both<Deletions, Matching>>,
                >,
            >,
        >>::tests(rule)
    }

    fn no_places() -> Self::Places {
        <Both<
            Deliveries,
            Both<
                Selecting<Counts<Subacks>>,
                Both<
                    Selecting<Counts<Unsubacks>>,
                    Both<Selecting<Grants>, Both<Deletions, Matching>>,
                >,
            >,
        >>::no_places()
    }

    #[inline(always)]
    fn count<E: Taken>(
        &self,
        places: &mut Self::Places,
        at: Place3,
        decided: u32,
        fate: Fate,
        event: &E,
    ) {
        self.watchers.count(places, at, decided, fate, event);
    }

    fn places_of(places: &Self::Places, rule: Rule) -> u32 {
        <Both<
            Deliveries,
            Both<
                Selecting<Counts<Subacks>>,
                Both<
                    Selecting<Counts<Unsubacks>>,
                    Both<Selecting<Grants>, Both<Deletions, Matching>>,
                >,
            >,
        >>::places_of(places, rule)
    }
}

impl Discerning for Subs {
    fn leaves_out(&self) {
        self.watchers.leaves_out();
    }
}
