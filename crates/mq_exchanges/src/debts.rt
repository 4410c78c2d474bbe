//! What an exchange owes: all its statements.
ghost use Rattle.std.specs.Prelude.{true, false, ◌≡◌, ◌&&◌, ◌||◌, [], Some, is_some, refl};
ghost use Rattle.mq_rules.specs.declared.fate.Fate.TheVariants.{Void};
ghost use Rattle.mq_rules.specs.Notes.{note_in};
ghost use Rattle.mq_rules.specs.Words.{is_some_and};
ghost use Rattle.mq_rules.specs.Rules.{same_rule};
ghost use Rattle.mq_exchanges.specs.Concerns.{concerns_asked, concerns_owed};
ghost use Rattle.mq_rules.specs.Statements.{if_early};
ghost use Rattle.mq_rules.specs.Exchanges.{applies_A, applies_O, applies_R};
ghost use Rattle.mq_rules.specs.Occasions.{occasion};
ghost use Rattle.mq_fates.specs.Placings.{on_any, on_either, on_rest, on_session, is_on_sessions};

use crate::asked::Asked;
use crate::exchange::Exchange;
use crate::owed::{Owed, OwedPlaces};
use mq_fates::{Asks, Discerning, Fated, Selective, Taken};
use mq_log::Place3;
use mq_rules::{Both, Fate, Faults, Memory, Noted, Rule, Tested};
use std::alloc::Global;

/// Watches all statements of an exchange: each answer was asked for, each cause is answered before
/// a REST, and answers are sent in the order of their causes if the exchange has such a statement.
#[derive(Drop)]
pub struct Debts<X: Exchange> {
    // Answers that weren't asked for; what is due, and its order.
    parts: Both<Asked<X>, Owed<X>>,
}

impl<X: Exchange> Debts<X> {
    /// No event was told yet.
    pub fn new(alloc: Global, tested: Tested) -> Self
        ensures { ⟦<Debts<X> as Fated>⟧.agrees result tested (Some Void) [] }
    {
        Debts {
            parts: Both::new(Asked::new(alloc, tested), Owed::new(alloc, tested)),
        }
    }
}

// Whether an event is a cause or an answer of an exchange.
#[inline(always)]
fn is_of_exchange<X: Exchange, E: Noted>(event: &E) -> bool
    ensures { result ≡ (is_some (X.exchange.cause (E.note event.now)) || is_some (X.exchange.answer (E.note event.now))) }
{
    X::cause(event).is_some() || X::answer(event).is_some()
}

impl<X: Exchange> Fated for Debts<X> {
    ghost agrees = { λ s. ⟦<Both<Asked<X>, Owed<X>> as Fated>⟧.agrees s.parts };

    ghost judges = { λ r. same_rule r X.asked || (same_rule r X.settled || is_some_and (same_rule r) X.ordered) };

    ghost weighs = { λ s. ⟦<Both<Asked<X>, Owed<X>> as Fated>⟧.weighs s.parts };

    ghost bound = { ⟦<Both<Asked<X>, Owed<X>> as Fated>⟧.bound };

    #[inline(always)]
    fn fated<E: Taken>(
        &mut self,
        at: Place3,
        decided: u32,
        fate: Fate,
        event: &E,
        faults: &mut Faults,
    ) -> Result<(), Memory> {
        if !self.may_concern(event) {
            self.parts.passes();
            return Ok(());
        }
        self.parts.fated(at, decided, fate, event, faults)
    }

    fn weight(&self) -> usize {
        self.parts.weight()
    }
}

impl<X: Exchange> Selective for Debts<X> {
    ghost concerns = { ⟦<Both<Asked<X>, Owed<X>> as Selective>⟧.concerns };

    fn passes(&self) {
        self.parts.passes();
    }

    #[inline(always)]
    fn may_concern<E: Taken>(&self, event: &E) -> bool {
        event.is_open() || event.is_rest() || event.ends() || is_of_exchange::<X, E>(event)
    }
}

impl<X: Exchange> Asks for Debts<X> {
    type Places = Both<u32, OwedPlaces>;

    ghost counted = { ⟦<Both<Asked<X>, Owed<X>> as Asks>⟧.counted };

    ghost counts = { ⟦<Both<Asked<X>, Owed<X>> as Asks>⟧.counts };

    ghost on_sessions = { λ role rule judged. on_either (same_rule rule X.asked) (same_rule rule X.settled || is_some_and (same_rule rule) X.ordered) (is_on_sessions (occasion role rule)) (on_session role X.asked rule (if_early X.early role (λ f. applies_A X.exchange)) (X.tries_asked role)) (on_either (same_rule rule X.settled) (is_some_and (same_rule rule) X.ordered) (is_on_sessions (occasion role rule)) (on_rest role X.settled rule (applies_R X.exchange) (X.tries_settled role)) (on_any role X.ordered rule (λ f. applies_O X.exchange) (X.tries_ordered role))) judged };

    fn tests(rule: Rule) -> bool {
        <Both<Asked<X>, Owed<X>>>::tests(rule)
    }

    fn no_places() -> Both<u32, OwedPlaces> {
        <Both<Asked<X>, Owed<X>>>::no_places()
    }

    #[inline(always)]
    fn count<E: Taken>(
        &self,
        places: &mut Both<u32, OwedPlaces>,
        at: Place3,
        decided: u32,
        fate: Fate,
        event: &E,
    ) {
        self.parts.count(places, at, decided, fate, event);
    }

    fn places_of(places: &Both<u32, OwedPlaces>, rule: Rule) -> u32 {
        <Both<Asked<X>, Owed<X>>>::places_of(places, rule)
    }
}

impl<X: Exchange> Discerning for Debts<X> {
    fn leaves_out(&self) {
        self.parts.leaves_out();
    }
}
