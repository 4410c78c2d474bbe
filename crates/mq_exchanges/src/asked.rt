//! Each answer was asked for (MQTT 5.0, sections 3.8.4, 3.10.4 and 4.3).
ghost use Rattle.std.specs.Prelude.{◌≡◌, ◌&&◌, ℕ, OnOk, cond, [], Some, None, is_some, not, option_map, refl};
ghost use Rattle.mq_rules.specs.declared.fate.Fate.TheVariants.{Void};
ghost use Rattle.mq_rules.specs.Connections.{accepts, surprises as surprising};
ghost use Rattle.mq_rules.specs.Rules.{same_rule, binds as is_bound};
ghost use Rattle.mq_rules.specs.Occasions.{places_under};
ghost use Rattle.mq_rules.specs.Statements.{if_early};
ghost use Rattle.mq_rules.specs.Exchanges.{applies_A};
ghost use Rattle.mq_rules.specs.KeptOrder.{value_under};
ghost use Rattle.mq_fates.specs.Placings.{on_session};
ghost use Rattle.mq_exchanges.specs.Burden.{caused_ids};
ghost use Rattle.mq_exchanges.specs.Weights.{asked_weighs};
ghost use Rattle.mq_exchanges.specs.Askings as keeping;
ghost use Rattle.mq_exchanges.specs.Askings.{IsAsked, answered_by, is_before};
ghost use Rattle.mq_rules.specs.Words.{is_id};
ghost use Rattle.mq_exchanges.specs.Concerns.{concerns_asked};

use crate::exchange::Exchange;
use mq_fates::{Asks, Discerning, Fated, Selective, Taken, excuse, judge_by, opened_after};
use mq_log::Place3;
use mq_rules::{CountedByIdentifier, Fate, Faults, Memory, Noted, Rule, Tested, places_after};
use std::alloc::Global;
use std::marker::PhantomData;

/// Watches that each answer has a cause in its session, which isn't answered on the answer's
/// connection.
#[derive(Drop)]
pub struct Asked<X: Exchange> {
    binds: bool,
    fate: Fate,
    // The position of the latest OPEN; 1 before the first one.
    opened: u32,
    // Under each identifier with a cause in the session: the position of the latest answer since
    // the latest cause, or 0.
    answered: CountedByIdentifier<u32>,
    exchange: PhantomData<X>,
}

// Whether no cause is owed under an identifier, by what is kept under it.
#[inline(always)]
fn is_unasked(latest: Option<u32>, opened: u32) -> bool
    ensures { result ≡ not (is_before opened latest) }
{
    match latest {
        Some(latest) => !(latest < opened),
        None => true,
    }
}

// Whether the statement is judged, and an answer has no cause that is owed.
#[inline(always)]
fn is_judged(binds: bool, unasked: bool) -> bool
    ensures { result ≡ (binds && unasked) }
{
    binds && unasked
}

// Takes in an answer, and returns whether no cause of it is owed. What isn't accepted changes
// nothing.
#[inline(always)]
fn take_answer(
    answered: &mut CountedByIdentifier<u32>,
    position: u32,
    fate: Fate,
    opened: u32,
    answer: Option<u16>,
) -> bool
    ensures unasked { result ≡ keeping.is_unasked fate opened answer (value_under answered.old) }
    ensures answered { (i : ℕ) → value_under answered.new i ≡ cond (accepts fate && is_id i answer) (option_map (λ _. position) (value_under answered.old i)) (value_under answered.old i) }
{
    if !fate.accepts() {
        return false;
    }
    let Some(i) = answer else {
        return false;
    };
    let unasked = is_unasked(answered.get(i), opened);
    answered.replace(i, position);
    unasked
}

// Takes in that a connection begins, or a cause.
#[inline(always)]
fn take_cause(
    answered: &mut CountedByIdentifier<u32>,
    fate: Fate,
    opens: bool,
    cause: Option<u16>,
) -> Result<(), Memory>
    ensures { OnOk result ((i : ℕ) → value_under answered.new i ≡ answered_by fate opens cause None 0 i (value_under answered.old i)) }
{
    if opens {
        if fate.begins() {
            answered.clear();
        }
        return Ok(());
    }
    if !fate.accepts() {
        return Ok(());
    }
    if let Some(i) = cause {
        answered.insert(i, 0)?;
    }
    Ok(())
}

// Whether the end may be surprised by the fate of a connection on which it has sent an answer.
fn surprises<X: Exchange>(fate: Fate) -> bool
    ensures { result ≡ (X.early && surprising fate) }
{
    X::may_be_early() && fate.surprises()
}

impl<X: Exchange> Asked<X> {
    /// No event was told yet.
    pub fn new(alloc: Global, tested: Tested) -> Self
        ensures { ⟦<Asked<X> as Fated>⟧.agrees result tested (Some Void) [] }
    {
        Asked {
            binds: X::asked_rule().is_judged(tested),
            fate: Fate::Void,
            opened: 1,
            answered: CountedByIdentifier::new(alloc),
            exchange: PhantomData,
        }
    }
}

impl<X: Exchange> Fated for Asked<X> {
    ghost agrees = { λ s tested taken past. (s.binds ≡ is_bound X.asked tested) × IsAsked X.exchange s.fate s.opened (value_under s.answered) tested taken past };

    ghost judges = { λ r. same_rule r X.asked };

    ghost weighs = { asked_weighs };

    ghost bound = { λ tested taken past. caused_ids X.exchange tested.role taken past };

    fn fated<E: Taken>(
        &mut self,
        at: Place3,
        decided: u32,
        fate: Fate,
        event: &E,
        faults: &mut Faults,
    ) -> Result<(), Memory> {
        let opens = event.is_open();
        let cause = X::cause(event);
        let answer = X::answer(event);
        let unasked = take_answer(&mut self.answered, at.position, fate, self.opened, answer);
        let judged = is_judged(self.binds, unasked);
        let broken = excuse(surprises::<X>(fate), decided == at.position, judged);
        take_cause(&mut self.answered, fate, opens, cause)?;
        self.opened = opened_after(self.opened, at.position, opens);
        self.fate = fate;
        judge_by(X::asked_rule(), broken, at, decided, faults)?;
        Ok(())
    }

    // The one table of the struct.
    fn weight(&self) -> usize {
        self.answered.len()
    }
}

impl<X: Exchange> Selective for Asked<X> {
    ghost concerns = { λ tested. concerns_asked X.exchange };

    fn passes(&self) {}
}

// Whether the statement is judged, and an answer is sent on an accepted connection.
fn is_answered(binds: bool, fate: Fate, answer: Option<u16>) -> bool
    ensures { result ≡ (binds && (accepts fate && is_some answer)) }
{
    binds && (fate.accepts() && answer.is_some())
}

impl<X: Exchange> Asks for Asked<X> {
    type Places = u32;

    ghost counted = { ⟦<Asked<X> as Fated>⟧.judges };

    ghost counts = { λ n tested taken past. n ≡ places_under tested taken past X.asked };

    ghost on_sessions = { λ role rule judged. on_session role X.asked rule (if_early X.early role (λ f. applies_A X.exchange)) (X.tries_asked role) judged };

    fn tests(rule: Rule) -> bool {
        rule == X::asked_rule()
    }

    fn no_places() -> u32 {
        0
    }

    #[inline(always)]
    fn count<E: Taken>(&self, places: &mut u32, at: Place3, decided: u32, fate: Fate, event: &E) {
        let answered = is_answered(self.binds, fate, X::answer(event));
        let here = excuse(surprises::<X>(fate), decided == at.position, answered);
        *places = places_after(here, *places, at.position);
    }

    fn places_of(places: &u32, _: Rule) -> u32 {
        *places
    }
}

impl<X: Exchange> Discerning for Asked<X> {
    fn leaves_out(&self) {}
}
