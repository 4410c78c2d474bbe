//! Each cause is answered before a REST, and answers are sent in the order of their causes (MQTT
//! 5.0, sections 3.8.4, 3.10.4, 4.3 and 4.6).
ghost use Rattle.std.specs.Prelude.{◌≡◌, ◌*◌, ◌+◌, ◌<◌, ◌==◌, ℕ, ◌||◌, ◌&&◌, not, nat_eq, is_some, true, false, IfOk, OnOk, OnErr, [], Some, None, cond, refl};
ghost use Rattle.mq_rules.specs.declared.note.Note.{Note as TheNote};
ghost use Rattle.mq_rules.specs.declared.rule.Rule.{Rule as TheRule};
ghost use Rattle.mq_rules.specs.Exchanges.{applies_O, applies_R};
ghost use Rattle.mq_rules.specs.Occasions.{places_under};
ghost use Rattle.mq_fates.specs.Placings.{on_any, on_either, on_rest, is_on_sessions};
ghost use Rattle.mq_rules.specs.Occasions.{occasion};
ghost use Rattle.mq_rules.specs.declared.fate.Fate.TheVariants.{Void};
ghost use Rattle.mq_rules.specs.Words.{is_id, is_some_and};
ghost use Rattle.mq_rules.specs.Notes.{is_rest};
ghost use Rattle.mq_rules.specs.Connections.{accepts};
ghost use Rattle.mq_rules.specs.KeptOrder.{value_under, values_of};
ghost use Rattle.mq_rules.specs.Rules.{same_rule, binds as is_bound};
ghost use Rattle.mq_rules.specs.Under.{IsKnown, turns_known};
ghost use Rattle.mq_exchanges.specs.Burden.{caused_ids};
ghost use Rattle.mq_exchanges.specs.Weights.{owed_weighs};
ghost use Rattle.mq_exchanges.specs.Owings.{IsOwing, IsSettling, due_by};
ghost use Rattle.mq_fates.specs.Judgements.{blamed, Keeps};
ghost use Rattle.mq_fates.specs.Taking.{binds_by};
ghost use Rattle.mq_exchanges.specs.Orderings.{chooses, falls_due, is_overtaken, is_overtaken_by, left_after, left_by, queued_by};
ghost use Rattle.mq_exchanges.specs.Concerns.{concerns_owed};

use crate::exchange::Exchange;
use crate::ordering::{Debt, enqueue, judge_order, passes_over, tidy};
use mq_fates::{Asks, Discerning, Fated, Selective, Taken, ended_after, pick};
use mq_log::Place3;
use mq_rules::{
    CountedByIdentifier, Fate, Fault, FaultKey, Faults, Memory, Noted, Rule, Tested, places_after,
};
use std::alloc::Global;
use std::collections::VecDeque;
use std::marker::PhantomData;

// Takes in that a connection begins, or a cause: it falls due, where nothing is. Returns whether it
// does.
#[inline(always)]
fn fall_due(
    due: &mut CountedByIdentifier<Place3>,
    at: Place3,
    opens: bool,
    cause: Option<u16>,
) -> Result<bool, Memory>
    ensures due { OnOk result ((i : ℕ) → value_under due.new i ≡ due_by opens cause None at i (value_under due.old i)) }
    ensures fell { IfOk result (λ fell. opens ≡ false → fell ≡ falls_due (value_under due.old) cause) }
{
    if opens {
        due.clear();
    }
    match cause {
        Some(i) => {
            if due.contains(i) {
                return Ok(false);
            }
            due.insert(i, at)?;
            Ok(true)
        }
        None => Ok(false),
    }
}

// Adds the faults of what is due.
#[inline(never)]
#[tactic(auto, using(mq_fates::proofs::BlameLaws::keeps_with_fault, mq_fates::proofs::BlameLaws::keeps_blamed))]
fn blame(
    due: &CountedByIdentifier<Place3>,
    rule: Rule,
    decided: u32,
    faults: &mut Faults,
) -> Result<(), Memory>
    ensures ok { OnOk result (faults.new ≡ blamed rule decided (values_of (value_under due.now)) faults.old) }
    ensures memory { OnErr result (Keeps faults.old faults.new) }
    ensures partial { OnErr result (Keeps faults.new (blamed rule decided (values_of (value_under due.now)) faults.old)) }
{
    let mut next = 0;
    // It stops at the last value, and doesn't go over the identifiers after it.
    for _ in 0..due.len() {
        let Some((identifier, place)) = due.first_from(next) else {
            return Ok(());
        };
        let key = FaultKey {
            position: place.position,
            rule,
        };
        let fault = Fault {
            decided,
            record_no: place.record_no,
            offset: None,
        };
        faults.add(key, fault)?;
        next = usize::from(identifier) + 1;
    }
    Ok(())
}

// Adds the faults of what is due, if a REST binds.
#[inline(always)]
#[tactic(auto, using(mq_fates::proofs::BlameLaws::keeps_same))]
fn settle(
    rests: bool,
    due: &CountedByIdentifier<Place3>,
    rule: Rule,
    decided: u32,
    faults: &mut Faults,
) -> Result<(), Memory>
    ensures ok { OnOk result (faults.new ≡ cond rests (blamed rule decided (values_of (value_under due.now)) faults.old) faults.old) }
    ensures memory { OnErr result (Keeps faults.old faults.new) }
    ensures partial { OnErr result (Keeps faults.new (cond rests (blamed rule decided (values_of (value_under due.now)) faults.old) faults.old)) }
{
    if !rests {
        return Ok(());
    }
    blame(due, rule, decided, faults)?;
    Ok(())
}

// Whether the statement is judged, and this is a REST that binds: its connection is decided and
// accepted, and nothing ended binding.
#[inline(always)]
fn rests_now(is_judged: bool, fate: Fate, is_decided: bool, ended: bool, rests: bool) -> bool
    ensures { (n : TheNote) → rests ≡ is_rest n → result ≡ (is_judged && binds_by fate is_decided ended n) }
{
    is_judged && (rests && (is_decided && (fate.accepts() && !ended)))
}

/// Watches that each cause is answered before a REST, and the order of answers if the exchange has
/// one.
#[derive(Drop)]
pub struct Owed<X: Exchange> {
    binds: bool,
    order_binds: bool,
    fate: Fate,
    // After this event no REST binds on the connection.
    ended: bool,
    // Under each identifier: the first cause on the connection without an answer since.
    due: CountedByIdentifier<Place3>,
    // All that is due, in order, and some of what was due.
    queue: VecDeque<Debt>,
    exchange: PhantomData<X>,
}

// Whether a statement is judged, if there is one.
fn is_any_judged(rule: Option<Rule>, tested: Tested) -> bool
    ensures { result ≡ is_some_and (λ r. is_bound r tested) rule }
{
    match rule {
        Some(rule) => rule.is_judged(tested),
        None => false,
    }
}

// Takes in an answer under an identifier: nothing is due there any more. Returns whether the
// statement on the order is judged, and something that fell due before is still due.
#[inline(always)]
fn settle_due(
    queue: &mut VecDeque<Debt>,
    due: &mut CountedByIdentifier<Place3>,
    binds: bool,
    i: u16,
) -> bool
    ensures due { (j : ℕ) → value_under due.new j ≡ cond (nat_eq i j) None (value_under due.old j) }
    ensures queue { queue.new.items ≡ cond binds (left_after (value_under due.new) i (value_under due.old i) queue.old.items) queue.old.items }
    ensures broken { result ≡ (binds && is_overtaken (value_under due.new) i (value_under due.old i) queue.old.items) }
{
    match due.remove(i) {
        Some(place) => binds && passes_over(queue, due, i, place.position),
        None => false,
    }
}

// Takes in an answer on a connection that has this fate. What isn't accepted changes nothing.
#[inline(always)]
fn take_answer(
    queue: &mut VecDeque<Debt>,
    due: &mut CountedByIdentifier<Place3>,
    binds: bool,
    fate: Fate,
    answer: Option<u16>,
) -> bool
    ensures due { (j : ℕ) → value_under due.new j ≡ cond (accepts fate && is_id j answer) None (value_under due.old j) }
    ensures queue { queue.new.items ≡ cond (accepts fate) (cond binds (left_by (value_under due.old) (value_under due.new) answer queue.old.items) queue.old.items) queue.old.items }
    ensures broken { result ≡ (accepts fate && (binds && is_overtaken_by (value_under due.old) (value_under due.new) answer queue.old.items)) }
{
    if !fate.accepts() {
        return false;
    }
    let Some(i) = answer else {
        return false;
    };
    settle_due(queue, due, binds, i)
}

// Takes in that a connection begins, or a cause, on a connection that has this fate. What isn't
// accepted changes nothing.
#[inline(always)]
fn take_cause(
    queue: &mut VecDeque<Debt>,
    due: &mut CountedByIdentifier<Place3>,
    rule: Option<Rule>,
    at: Place3,
    fate: Fate,
    opens: bool,
    cause: Option<u16>,
) -> Result<(), Memory>
    ensures due { accepts fate ≡ true → OnOk result ((i : ℕ) → value_under due.new i ≡ due_by opens cause None at i (value_under due.old i)) }
    ensures same { accepts fate ≡ false → OnOk result ((i : ℕ) → value_under due.new i ≡ value_under due.old i) }
    ensures queue { OnOk result (queue.new.items ≡ cond (is_some rule && accepts fate) (queued_by opens cause at.position (value_under due.old) queue.old.items) queue.old.items) }
{
    if !fate.accepts() {
        return Ok(());
    }
    let fell = fall_due(due, at, opens, cause)?;
    let Some(_) = rule else {
        return Ok(());
    };
    enqueue(queue, at, opens, cause, fell)?;
    Ok(())
}

impl<X: Exchange> Owed<X> {
    /// No event was told yet.
    pub fn new(alloc: Global, tested: Tested) -> Self
        ensures { ⟦<Owed<X> as Fated>⟧.agrees result tested (Some Void) [] }
    {
        Owed {
            binds: X::settled_rule().is_judged(tested),
            order_binds: is_any_judged(X::ordered_rule(), tested),
            fate: Fate::Void,
            ended: false,
            due: CountedByIdentifier::new(alloc),
            queue: VecDeque::new(alloc),
            exchange: PhantomData,
        }
    }
}

impl<X: Exchange> Fated for Owed<X> {
    ghost agrees = { λ s tested taken past. IsOwing X.exchange X.settled X.ordered s.binds s.order_binds s.fate s.ended (value_under s.due) s.queue.items tested taken past };

    ghost judges = { λ r. same_rule r X.settled || is_some_and (same_rule r) X.ordered };

    ghost weighs = { owed_weighs };

    ghost bound = { λ tested taken past. 3 * caused_ids X.exchange tested.role taken past };

    fn fated<E: Taken>(
        &mut self,
        at: Place3,
        decided: u32,
        fate: Fate,
        event: &E,
        faults: &mut Faults,
    ) -> Result<(), Memory> {
        let opens = event.is_open();
        let cause = X::cause(event);
        let answer = X::answer(event);
        let ordered = X::ordered_rule();
        let rests = rests_now(
            self.binds,
            fate,
            decided == at.position,
            self.ended,
            event.is_rest(),
        );
        settle(rests, &self.due, X::settled_rule(), decided, faults)?;
        let broken = take_answer(
            &mut self.queue,
            &mut self.due,
            self.order_binds,
            fate,
            answer,
        );
        take_cause(
            &mut self.queue,
            &mut self.due,
            ordered,
            at,
            fate,
            opens,
            cause,
        )?;
        tidy(&mut self.queue, &self.due, cause);
        self.ended = ended_after(self.ended, event);
        self.fate = fate;
        judge_order(ordered, broken, at, decided, faults)?;
        Ok(())
    }

    // The table and the queue of the struct.
    fn weight(&self) -> usize {
        self.due.len().saturating_add(self.queue.len())
    }
}

impl<X: Exchange> Selective for Owed<X> {
    ghost concerns = { λ tested. concerns_owed X.exchange };

    fn passes(&self) {}
}

// Whether an answer is to what is due, while something is due under another identifier.
fn has_choice(due: &CountedByIdentifier<Place3>, answer: Option<u16>) -> bool
    ensures { result ≡ chooses (value_under due.now) answer }
{
    match answer {
        Some(identifier) => due.contains(identifier) && due.any_but(identifier),
        None => false,
    }
}

// Whether a statement is this one, if there is one.
fn is_rule(one: Option<Rule>, rule: Rule) -> bool
    ensures { result ≡ is_some_and (same_rule rule) one }
{
    match one {
        Some(one) => rule == one,
        None => false,
    }
}

// The sum of two numbers, if it is one.
fn sum(a: u32, b: u32) -> u32
    ensures { a + b < 4294967296 → result ≡ a + b }
{
    a.saturating_add(b)
}

// How often a REST put the statement to the test, after an event.
fn settled_after(rests: bool, settled: u32, pending: u32) -> u32
    ensures { (rests ≡ true → settled + pending < 4294967296) → result ≡ cond rests (settled + pending) settled }
{
    if rests {
        sum(settled, pending)
    } else {
        settled
    }
}

// How many causes wait for a REST after an event.
fn pending_after(begins: bool, opens: bool, rests: bool, pending: u32) -> u32
    ensures { ((opens || rests) ≡ false → pending < 4294967295) → result ≡ cond begins 1 0 + cond (opens || rests) 0 pending }
{
    let pending = if opens || rests { 0 } else { pending };
    if begins { sum(pending, 1) } else { pending }
}

impl<X: Exchange> Owed<X> {
    // Whether the statement on RESTs is judged, and this is one that binds.
    #[inline(always)]
    fn rests<E: Noted>(&self, fate: Fate, is_decided: bool, event: &E) -> bool
        ensures { result ≡ (self.now.binds && binds_by fate is_decided self.now.ended (E.note event.now)) }
    {
        self.binds && (event.is_rest() && (is_decided && (fate.accepts() && !self.ended)))
    }

    // Whether the event is a cause, and nothing is due under its identifier.
    #[inline(always)]
    fn begins<E: Noted>(&self, event: &E) -> bool
        ensures { result ≡ is_some_and (λ i. not (is_some (value_under self.now.due i))) (X.exchange.cause (E.note event.now)) }
    {
        match X::cause(event) {
            Some(i) => !self.due.contains(i),
            None => false,
        }
    }

    // Whether the statement on the order is judged, and put to the test.
    #[inline(always)]
    fn orders<E: Noted>(&self, fate: Fate, event: &E) -> bool
        ensures { result ≡ (self.now.order_binds && (accepts fate && chooses (value_under self.now.due) (X.exchange.answer (E.note event.now)))) }
    {
        self.order_binds && (fate.accepts() && has_choice(&self.due, X::answer(event)))
    }
}

/// How often the statements of an exchange were put to the test, and how many causes wait for it.
#[derive(Drop)]
pub struct OwedPlaces {
    // First causes on the connection that no REST has put to the test yet.
    pending: u32,
    settled: u32,
    ordered: u32,
}

impl<X: Exchange> Asks for Owed<X> {
    type Places = OwedPlaces;

    ghost counted = { ⟦<Owed<X> as Fated>⟧.judges };

    ghost counts = { λ n tested taken past. IsSettling X.exchange X.settled n.pending n.settled tested taken past × ((rule : TheRule) → X.ordered ≡ Some rule → n.ordered ≡ places_under tested taken past rule) };

    ghost on_sessions = { λ role rule judged. on_either (same_rule rule X.settled) (is_some_and (same_rule rule) X.ordered) (is_on_sessions (occasion role rule)) (on_rest role X.settled rule (applies_R X.exchange) (X.tries_settled role)) (on_any role X.ordered rule (λ f. applies_O X.exchange) (X.tries_ordered role)) judged };

    fn tests(rule: Rule) -> bool {
        rule == X::settled_rule() || is_rule(X::ordered_rule(), rule)
    }

    fn no_places() -> OwedPlaces {
        OwedPlaces {
            pending: 0,
            settled: 0,
            ordered: 0,
        }
    }

    #[inline(always)]
    fn count<E: Taken>(
        &self,
        places: &mut OwedPlaces,
        at: Place3,
        decided: u32,
        fate: Fate,
        event: &E,
    ) {
        let rests = self.rests(fate, decided == at.position, event);
        let begins = self.begins(event);
        let orders = self.orders(fate, event);
        places.settled = settled_after(rests, places.settled, places.pending);
        places.pending = pending_after(begins, event.is_open(), rests, places.pending);
        places.ordered = places_after(orders, places.ordered, at.position);
    }

    fn places_of(places: &OwedPlaces, rule: Rule) -> u32 {
        pick(rule == X::settled_rule(), places.settled, places.ordered)
    }
}

impl<X: Exchange> Discerning for Owed<X> {
    fn leaves_out(&self) {}
}
