//! All statements on sessions.
ghost use Rattle.std.specs.Prelude.{◌≡◌, [], Some};
ghost use Rattle.mq_rules.specs.declared.fate.Fate.TheVariants.{Void};
ghost use Rattle.mq_watchers.specs.Grouping.{of_sessions, on_sessions as on_each};

use mq_exchanges::{Messages, Pings, Releases, Requests};
use mq_fates::{Asks, Fated, Selecting, Taken};
use mq_inflight::{Inflight, Quota};
use mq_log::Place3;
use mq_rules::{Both, Fate, Faults, Memory, Rule, Tested};
use mq_subscriptions::Subs;
use std::alloc::Global;

/// What is sent under Packet Identifiers, within the send quota, and in answer to pings.
type Sending = Both<Selecting<Inflight>, Both<Selecting<Quota>, Selecting<Pings>>>;

/// What is received and answered.
type Exchanges = Both<Selecting<Messages>, Selecting<Requests>>;

/// What is released for onward delivery, and what is delivered.
type Delivering = Both<Selecting<Releases>, Selecting<Subs>>;

/// Watches S01 to S07, E1A to E7R, L1 to L3, B01 to B09, P01, P02, R01 and R02.
pub struct Sessions {
    watchers: Both<Sending, Both<Exchanges, Delivering>>,
}

/// How often each of these statements was put to the test.
#[derive(Drop)]
pub struct SessionPlaces {
    parts: <Both<Sending, Both<Exchanges, Delivering>> as Asks>::Places,
}

// As a derived one, but a call of its own.
impl Drop for Sessions {
    #[inline(never)]
    fn drop(self) {
        let Sessions {
            watchers: _watchers,
        } = self;
    }
}

// What is sent, before any event.
fn sending(alloc: Global, tested: Tested) -> Sending
    ensures { ⟦<Both<Selecting<Inflight>, Both<Selecting<Quota>, Selecting<Pings>>> as Fated>⟧.agrees result tested (Some Void) [] }
{
    Both::new(
        Selecting::new(Inflight::new(alloc, tested)),
        Both::new(
            Selecting::new(Quota::new(tested)),
            Selecting::new(Pings::new(tested)),
        ),
    )
}

// The exchanges, before any event.
fn exchanges(alloc: Global, tested: Tested) -> Exchanges
    ensures { ⟦<Both<Selecting<Messages>, Selecting<Requests>> as Fated>⟧.agrees result tested (Some Void) [] }
{
    Both::new(
        Selecting::new(Messages::new(alloc, tested)),
        Selecting::new(Requests::new(alloc, tested)),
    )
}

// What is delivered, before any event.
fn delivering(alloc: Global, tested: Tested) -> Delivering
    ensures { ⟦<Both<Selecting<Releases>, Selecting<Subs>> as Fated>⟧.agrees result tested (Some Void) [] }
{
    Both::new(
        Selecting::new(Releases::new(alloc, tested)),
        Selecting::new(Subs::new(alloc, tested)),
    )
}

impl Sessions {
    /// Nothing was received or sent.
    pub fn new(alloc: Global, tested: Tested) -> Self
        ensures { ⟦<Sessions as Fated>⟧.agrees result tested (Some Void) [] }
    {
        Sessions {
            watchers: Both::new(
                sending(alloc, tested),
                Both::new(exchanges(alloc, tested), delivering(alloc, tested)),
            ),
        }
    }
}

impl Fated for Sessions {
    ghost agrees = { λ s. ⟦<Both<Both<Selecting<Inflight>, Both<Selecting<Quota>, Selecting<Pings>>>, Both<Both<Selecting<Messages>, Selecting<Requests>>, Both<Selecting<Releases>, Selecting<Subs>>>> as Fated>⟧.agrees s.watchers };

    ghost judges = { of_sessions };

    ghost weighs = { λ s. ⟦<Both<Both<Selecting<Inflight>, Both<Selecting<Quota>, Selecting<Pings>>>, Both<Both<Selecting<Messages>, Selecting<Requests>>, Both<Selecting<Releases>, Selecting<Subs>>>> as Fated>⟧.weighs s.watchers };

    ghost bound = { ⟦<Both<Both<Selecting<Inflight>, Both<Selecting<Quota>, Selecting<Pings>>>, Both<Both<Selecting<Messages>, Selecting<Requests>>, Both<Selecting<Releases>, Selecting<Subs>>>> as Fated>⟧.bound };

    #[inline(always)]
    fn fated<E: Taken>(
        &mut self,
        at: Place3,
        decided: u32,
        fate: Fate,
        event: &E,
        faults: &mut Faults,
    ) -> Result<(), Memory> {
        self.watchers.fated(at, decided, fate, event, faults)
    }

    fn weight(&self) -> usize {
        self.watchers.weight()
    }
}

impl Asks for Sessions {
    type Places = SessionPlaces;

    ghost counts = { λ n. ⟦<Both<Both<Selecting<Inflight>, Both<Selecting<Quota>, Selecting<Pings>>>, Both<Both<Selecting<Messages>, Selecting<Requests>>, Both<Selecting<Releases>, Selecting<Subs>>>> as Asks>⟧.counts n.parts };

    ghost counted = { of_sessions };

    ghost on_sessions = { on_each };

    fn tests(rule: Rule) -> bool {
        <Both<Sending, Both<Exchanges, Delivering>>>::tests(rule)
    }

    fn no_places() -> SessionPlaces {
        SessionPlaces {
            parts: <Both<Sending, Both<Exchanges, Delivering>>>::no_places(),
        }
    }

    #[inline(always)]
    fn count<E: Taken>(
        &self,
        places: &mut SessionPlaces,
        at: Place3,
        decided: u32,
        fate: Fate,
        event: &E,
    ) {
        self.watchers
            .count(&mut places.parts, at, decided, fate, event);
    }

    #[inline(always)]
    fn count_and_take<E: Taken>(
        &mut self,
        places: &mut SessionPlaces,
        at: Place3,
        decided: u32,
        fate: Fate,
        event: &E,
        faults: &mut Faults,
    ) -> Result<(), Memory> {
        self.watchers
            .count_and_take(&mut places.parts, at, decided, fate, event, faults)
    }

    fn places_of(places: &SessionPlaces, rule: Rule) -> u32 {
        <Both<Sending, Both<Exchanges, Delivering>>>::places_of(&places.parts, rule)
    }
}
