//! Requests to subscribe and to unsubscribe, and their answers: E5A to E6R (MQTT 5.0, sections
//! 3.8.4 and 3.10.4).
ghost use Rattle.std.specs.Prelude.{◌≡◌, cond, [], Some};
ghost use Rattle.mq_rules.specs.declared.fate.Fate.TheVariants.{Void};
ghost use Rattle.mq_exchanges.specs.Grouping.{of_requests, on_requests};
ghost use Rattle.mq_rules.specs.Notes.{note_in};
ghost use Rattle.mq_fates.specs.Holding.{number_in};
ghost use Rattle.mq_exchanges.specs.Requesting.{binds_requests, AgreesIfBound, CountsIfBound};

use crate::debts::Debts;
use crate::exchange::{E5, E6};
use crate::owed::OwedPlaces;
use mq_fates::{Asks, Discerning, Fated, Selective, Taken};
use mq_log::Place3;
use mq_rules::{Both, Fate, Faults, Memory, Rule, Tested};
use std::alloc::Global;

/// Watches what a server owes for each SUBSCRIBE and UNSUBSCRIBE: E5A to E6R. They bind no client:
/// for one it keeps nothing.
pub struct Requests {
    watchers: Option<Both<Debts<E5>, Debts<E6>>>,
}

// As a derived one, but a call of its own.
impl Drop for Requests {
    #[inline(never)]
    fn drop(self) {
        let Requests {
            watchers: _watchers,
        } = self;
    }
}

impl Requests {
    /// Nothing was received or sent.
    pub fn new(alloc: Global, tested: Tested) -> Self
        ensures { ⟦<Requests as Fated>⟧.agrees result tested (Some Void) [] }
    {
        if !Rule::E5R.binds(tested.role) {
            return Requests { watchers: None };
        }
        Requests {
            watchers: Some(Both::new(Debts::new(alloc, tested), Debts::new(alloc, tested))),
        }
    }
}

impl Fated for Requests {
    ghost agrees = { λ s. AgreesIfBound ⟦<Both<Debts<E5>, Debts<E6>> as Fated>⟧.agrees s.watchers };

    ghost judges = { of_requests };

    ghost weighs = { λ s. number_in ⟦<Both<Debts<E5>, Debts<E6>> as Fated>⟧.weighs s.watchers };

    ghost bound = { λ tested taken past. cond (binds_requests tested.role) (⟦<Both<Debts<E5>, Debts<E6>> as Fated>⟧.bound tested taken past) 0 };

    fn fated<E: Taken>(
        &mut self,
        at: Place3,
        decided: u32,
        fate: Fate,
        event: &E,
        faults: &mut Faults,
    ) -> Result<(), Memory> {
        let Some(watchers) = &mut self.watchers else {
            return Ok(());
        };
        watchers.fated(at, decided, fate, event, faults)
    }

    fn weight(&self) -> usize {
        match &self.watchers {
            Some(watchers) => watchers.weight(),
            None => 0,
        }
    }
}

impl Selective for Requests {
    ghost concerns = { ⟦<Both<Debts<E5>, Debts<E6>> as Selective>⟧.concerns };

    fn passes(&self) {
        match &self.watchers {
            Some(watchers) => watchers.passes(),
            None => {}
        }
    }

    #[inline(always)]
    fn may_concern<E: Taken>(&self, event: &E) -> bool {
        event.may_concern_requests()
    }
}

/// How often E5A to E6R were put to the test.
type RequestPlaces = Both<Both<u32, OwedPlaces>, Both<u32, OwedPlaces>>;

impl Asks for Requests {
    type Places = RequestPlaces;

    ghost counted = { ⟦<Both<Debts<E5>, Debts<E6>> as Asks>⟧.counted };

    ghost counts = { CountsIfBound ⟦<Both<Debts<E5>, Debts<E6>> as Asks>⟧.counts };

    ghost on_sessions = { on_requests };

    fn tests(rule: Rule) -> bool {
        <Both<Debts<E5>, Debts<E6>>>::tests(rule)
    }

    fn no_places() -> RequestPlaces {
        <Both<Debts<E5>, Debts<E6>>>::no_places()
    }

    #[inline(always)]
    fn count<E: Taken>(
        &self,
        places: &mut RequestPlaces,
        at: Place3,
        decided: u32,
        fate: Fate,
        event: &E,
    ) {
        if let Some(watchers) = &self.watchers {
            watchers.count(places, at, decided, fate, event);
        }
    }

    fn places_of(places: &RequestPlaces, rule: Rule) -> u32 {
        <Both<Debts<E5>, Debts<E6>>>::places_of(places, rule)
    }
}

impl Discerning for Requests {
    fn leaves_out(&self) {
        match &self.watchers {
            Some(watchers) => watchers.leaves_out(),
            None => {}
        }
    }
}
