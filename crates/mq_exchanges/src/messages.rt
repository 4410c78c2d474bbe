//! Exchanges of messages: E1A to E4R (MQTT 5.0, section 4.3).
ghost use Rattle.std.specs.Prelude.{◌≡◌, [], Some};
ghost use Rattle.mq_rules.specs.declared.fate.Fate.TheVariants.{Void};
ghost use Rattle.mq_exchanges.specs.Grouping.{on_messages, of_messages};
ghost use Rattle.mq_rules.specs.Notes.{note_in};

use crate::debts::Debts;
use crate::exchange::{E1, E2, E3, E4};
use mq_fates::{Asks, Discerning, Fated, Selective, Taken, fated_apart};
use mq_log::Place3;
use mq_rules::{Both, Fate, Faults, Memory, Rule, Tested};
use std::alloc::Global;

/// Watches what the tested end owes for the messages that it receives and sends: E1A to E4R.
pub struct Messages {
    watchers: Both<Both<Debts<E1>, Debts<E2>>, Both<Debts<E3>, Debts<E4>>>,
}

// As a derived one, but a call of its own.
impl Drop for Messages {
    #[inline(never)]
    fn drop(self) {
        let Messages {
            watchers: _watchers,
        } = self;
    }
}

impl Messages {
    /// Nothing was received or sent.
    pub fn new(alloc: Global, tested: Tested) -> Self
        ensures { ⟦<Messages as Fated>⟧.agrees result tested (Some Void) [] }
    {
        Messages {
            watchers: Both::new(
                Both::new(Debts::new(alloc, tested), Debts::new(alloc, tested)),
                Both::new(Debts::new(alloc, tested), Debts::new(alloc, tested)),
            ),
        }
    }
}

impl Fated for Messages {
    ghost agrees = { λ s. ⟦<Both<Both<Debts<E1>, Debts<E2>>, Both<Debts<E3>, Debts<E4>>> as Fated>⟧.agrees s.watchers };

    ghost judges = { of_messages };

    ghost weighs = { λ s. ⟦<Both<Both<Debts<E1>, Debts<E2>>, Both<Debts<E3>, Debts<E4>>> as Fated>⟧.weighs s.watchers };

    ghost bound = { ⟦<Both<Both<Debts<E1>, Debts<E2>>, Both<Debts<E3>, Debts<E4>>> as Fated>⟧.bound };

    // A call of its own: inlined it is much, and most packets don't concern it.
    #[inline(always)]
    fn fated<E: Taken>(
        &mut self,
        at: Place3,
        decided: u32,
        fate: Fate,
        event: &E,
        faults: &mut Faults,
    ) -> Result<(), Memory> {
        let event = event.as_ref();
        fated_apart(&mut self.watchers, at, decided, fate, event, faults)
    }

    fn weight(&self) -> usize {
        self.watchers.weight()
    }
}

impl Selective for Messages {
    ghost concerns = { ⟦<Both<Both<Debts<E1>, Debts<E2>>, Both<Debts<E3>, Debts<E4>>> as Selective>⟧.concerns };

    fn passes(&self) {
        self.watchers.passes();
    }

    #[inline(always)]
    fn may_concern<E: Taken>(&self, event: &E) -> bool {
        event.may_concern_messages()
    }
}

impl Asks for Messages {
    type Places = <Both<Both<Debts<E1>, Debts<E2>>, Both<Debts<E3>, Debts<E4>>> as Asks>::Places;

    ghost counts = { ⟦<Both<Both<Debts<E1>, Debts<E2>>, Both<Debts<E3>, Debts<E4>>> as Asks>⟧.counts };

    ghost counted = { of_messages };

    ghost on_sessions = { on_messages };

    fn tests(rule: Rule) -> bool {
        <Both<Both<Debts<E1>, Debts<E2>>, Both<Debts<E3>, Debts<E4>>>>::tests(rule)
    }

    fn no_places() -> Self::Places {
        <Both<Both<Debts<E1>, Debts<E2>>, Both<Debts<E3>, Debts<E4>>>>::no_places()
    }

    #[inline(always)]
    fn count<E: Taken>(
        &self,
        places: &mut Self::Places,
        at: Place3,
        decided: u32,
        fate: Fate,
        event: &E,
    ) {
        self.watchers.count(places, at, decided, fate, event);
    }

    fn places_of(places: &Self::Places, rule: Rule) -> u32 {
        <Both<Both<Debts<E1>, Debts<E2>>, Both<Debts<E3>, Debts<E4>>>>::places_of(places, rule)
    }
}

impl Discerning for Messages {
    fn leaves_out(&self) {
        self.watchers.leaves_out();
    }
}
