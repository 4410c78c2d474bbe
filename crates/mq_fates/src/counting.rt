//! Watchers that count how often their statements are put to the test.
ghost use Rattle.std.specs.Prelude.{◌≡◌, ◌<◌, ◌+◌, ◌∷◌, [], Bool, true, cond, List, Option, Some, OnOk, OnErr};
ghost use Rattle.mq_rules.specs.declared.role.Tested.{Tested as TheTested};
ghost use Rattle.mq_rules.specs.declared.fate.Fate.{Fate as TheFate};
ghost use Rattle.mq_rules.specs.declared.fate.Fate.TheVariants.{Void};
ghost use Rattle.mq_rules.specs.declared.note.Seen.{Seen as TheSeen};
ghost use Rattle.mq_rules.specs.Growing.{Gains, GainsWithin};
ghost use Rattle.mq_rules.specs.Under.{seen, IsUnder, fate_before, turns_with};
ghost use Rattle.mq_rules.specs.declared.role.Role.{Role as TheRole};
ghost use Rattle.mq_rules.specs.declared.rule.Rule.{Rule as TheRule};
ghost use Rattle.mq_rules.specs.Occasions.{occasion, places_under};
ghost use Rattle.mq_fates.specs.Placings.{is_on_sessions, on_either};
ghost use Rattle.std.specs.Prelude.{◌&&◌, ◌||◌, refl};

use crate::fated::Fated;
use crate::taken::Taken;
use mq_log::Place3;
use mq_rules::{Both, Fate, Faults, Memory, Rule};

/// A watcher that can tell, before it takes in an event, which of its statements the event puts to
/// the test.
pub trait Asks: Fated {
    /// What is kept to count the places of its statements.
    type Places: Drop;

    /// The counts are those of these events, the newest first, where their latest connection is
    /// taken to have this fate.
    ghost counts: { Self.Places → TheTested → Option TheFate → List TheSeen → Type 0 };

    /// The statements whose places it counts, among those that it judges.
    ghost counted: { TheRule → Bool };

    /// Whether it counts the places of a statement.
    fn tests(rule: Rule) -> bool
        ensures { result ≡ counted rule };

    /// The counts before any event.
    fn no_places() -> Self::Places
        ensures { (tested : TheTested) → counts result tested (Some Void) [] };

    /// Counts the places that turn out with an event of a connection that has this fate. The
    /// watcher takes in the event after that.
    fn count<E: Taken>(
        &self,
        places: &mut Self::Places,
        at: Place3,
        decided: u32,
        fate: Fate,
        event: &E,
    )
        ensures { (tested : TheTested) (past : List TheSeen) → IsUnder tested fate decided (seen at (E.note event.now)) past → Self.agrees self.now tested (fate_before tested fate (seen at (E.note event.now)) past) past → counts places.old tested (fate_before tested fate (seen at (E.note event.now)) past) past → counts places.new tested (Some fate) (seen at (E.note event.now) ∷ past) };

    /// Counts the places that turn out with an event of a connection that has this fate, and takes
    /// it in. By default it does one after the other, in a call of its own: most events concern few
    /// watchers, and inlined this is much for each of them.
    ///
    /// # Errors
    ///
    /// As in `fated`.
    #[inline(never)]
    fn count_and_take<E: Taken>(
        &mut self,
        places: &mut Self::Places,
        at: Place3,
        decided: u32,
        fate: Fate,
        event: &E,
        faults: &mut Faults,
    ) -> Result<(), Memory>
        ensures agrees { OnOk result ((tested : TheTested) (past : List TheSeen) → IsUnder tested fate decided (seen at (E.note event.now)) past → Self.agrees self.old tested (fate_before tested fate (seen at (E.note event.now)) past) past → Self.agrees self.new tested (Some fate) (seen at (E.note event.now) ∷ past)) }
        ensures grows { OnOk result ((tested : TheTested) (past : List TheSeen) → IsUnder tested fate decided (seen at (E.note event.now)) past → Self.agrees self.old tested (fate_before tested fate (seen at (E.note event.now)) past) past → Gains (λ k r. Self.judges r && turns_with tested fate (seen at (E.note event.now)) past k r) tested (seen at (E.note event.now) ∷ past) decided faults.old faults.new) }
        ensures memory { OnErr result ((tested : TheTested) (past : List TheSeen) → IsUnder tested fate decided (seen at (E.note event.now)) past → Self.agrees self.old tested (fate_before tested fate (seen at (E.note event.now)) past) past → GainsWithin (λ k r. Self.judges r && turns_with tested fate (seen at (E.note event.now)) past k r) tested (seen at (E.note event.now) ∷ past) decided faults.old faults.new) }
        ensures counts { OnOk result ((tested : TheTested) (past : List TheSeen) → IsUnder tested fate decided (seen at (E.note event.now)) past → Self.agrees self.old tested (fate_before tested fate (seen at (E.note event.now)) past) past → counts places.old tested (fate_before tested fate (seen at (E.note event.now)) past) past → counts places.new tested (Some fate) (seen at (E.note event.now) ∷ past)) }
    {
        self.count(places, at, decided, fate, event);
        self.fated(at, decided, fate, event, faults)
    }

    /// How many places one of them has.
    fn places_of(places: &Self::Places, rule: Rule) -> u32
        ensures { (tested : TheTested) (taken : Option TheFate) (past : List TheSeen) → counts places.now tested taken past → counted rule ≡ true → result ≡ places_under tested taken past rule };

    /// They are put to the test on sessions.
    ghost on_sessions: { (role : TheRole) (rule : TheRule) → counted rule ≡ true → is_on_sessions (occasion role rule) ≡ true };
}

/// One more, of which there are fewer than events.
pub fn more(old: u64, position: u32) -> u64
    ensures { old < position → result ≡ old + 1 }
{
    if old < u64::from(position) {
        return old + 1;
    }
    old
}

/// A watcher, and how often each of its statements was put to the test.
#[derive(Drop)]
pub struct Counting<W: Asks> {
    watcher: W,
    places: W::Places,
}

/// One of two numbers.
pub fn pick(first: bool, a: u32, b: u32) -> u32
    ensures { result ≡ cond first a b }
{
    if first { a } else { b }
}

impl<W: Asks> Counting<W> {
    /// Around this watcher, before any event.
    pub fn new(watcher: W) -> Self
        ensures { (tested : TheTested) → W.agrees watcher tested (Some Void) [] → ⟦<Counting<W> as Fated>⟧.agrees result tested (Some Void) [] }
    {
        Counting {
            watcher,
            places: W::no_places(),
        }
    }

    /// How many places one of its statements has, where the latest connection is taken to have the
    /// fate that it came with.
    pub fn places(&self, rule: Rule) -> u32
        ensures { (tested : TheTested) (taken : Option TheFate) (past : List TheSeen) → ⟦<Counting<W> as Fated>⟧.agrees self.now tested taken past → W.counted rule ≡ true → result ≡ places_under tested taken past rule }
    {
        W::places_of(&self.places, rule)
    }
}

impl<W: Asks> Fated for Counting<W> {
    ghost agrees = { λ s tested taken past. W.agrees s.watcher tested taken past × W.counts s.places tested taken past };

    ghost judges = { W.judges };

    ghost weighs = { λ s. W.weighs s.watcher };

    ghost bound = { W.bound };

    #[inline(always)]
    fn fated<E: Taken>(
        &mut self,
        at: Place3,
        decided: u32,
        fate: Fate,
        event: &E,
        faults: &mut Faults,
    ) -> Result<(), Memory> {
        self.watcher
            .count_and_take(&mut self.places, at, decided, fate, event, faults)
    }

    fn weight(&self) -> usize {
        self.watcher.weight()
    }
}

impl<A: Asks, B: Asks> Asks for Both<A, B> {
    type Places = Both<A::Places, B::Places>;

    ghost counts = { λ n tested taken past. A.counts n.a tested taken past × B.counts n.b tested taken past };

    ghost counted = { λ r. A.counted r || B.counted r };

    ghost on_sessions = { λ role rule judged. on_either (A.counted rule) (B.counted rule) (is_on_sessions (occasion role rule)) (A.on_sessions role rule) (B.on_sessions role rule) judged };

    fn tests(rule: Rule) -> bool {
        A::tests(rule) || B::tests(rule)
    }

    fn no_places() -> Self::Places {
        Both::new(A::no_places(), B::no_places())
    }

    #[inline(always)]
    fn count<E: Taken>(
        &self,
        places: &mut Self::Places,
        at: Place3,
        decided: u32,
        fate: Fate,
        event: &E,
    ) {
        self.a.count(&mut places.a, at, decided, fate, event);
        self.b.count(&mut places.b, at, decided, fate, event);
    }

    #[inline(always)]
    #[tactic(auto, using(mq_rules::proofs::GainLaws::gains_either, mq_rules::proofs::GainLaws::within_either_first, mq_rules::proofs::GainLaws::within_either_second))]
    fn count_and_take<E: Taken>(
        &mut self,
        places: &mut Self::Places,
        at: Place3,
        decided: u32,
        fate: Fate,
        event: &E,
        faults: &mut Faults,
    ) -> Result<(), Memory> {
        match self
            .a
            .count_and_take(&mut places.a, at, decided, fate, event, faults)
        {
            Ok(()) => self
                .b
                .count_and_take(&mut places.b, at, decided, fate, event, faults),
            Err(Memory) => Err(Memory),
        }
    }

    fn places_of(places: &Self::Places, rule: Rule) -> u32 {
        pick(
            A::tests(rule),
            A::places_of(&places.a, rule),
            B::places_of(&places.b, rule),
        )
    }
}
