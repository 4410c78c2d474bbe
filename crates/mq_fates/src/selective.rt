//! Watchers that are given only the events that may concern them.
ghost use Rattle.std.specs.Prelude.{◌≡◌, ◌∷◌, ◌<◌, ◌&&◌, ◌||◌, ℕ, Bool, false, List, Option, Some};
ghost use Rattle.mq_rules.specs.declared.role.Tested.{Tested};
ghost use Rattle.mq_rules.specs.declared.fate.Fate.{Fate as TheFate};
ghost use Rattle.mq_rules.specs.declared.note.Note.{Note as TheNote};
ghost use Rattle.mq_rules.specs.declared.note.Seen.{Seen};
ghost use Rattle.mq_rules.specs.Under.{IsUnder, fate_before};
ghost use Rattle.mq_fates.specs.Concerns.{Passes};

use crate::counting::Asks;
use crate::fated::Fated;
use crate::taken::Taken;
use mq_log::Place3;
use mq_rules::{Both, Fate, Faults, Memory, Rule};

/// A watcher of which it is known which events concern it: any other event leaves what it keeps as
/// it is, and shows none of its statements to be false.
pub trait Selective: Fated {
    /// The notes of the events that concern it.
    ghost concerns: { Tested → TheNote → Bool };

    /// The law on all others. The call does nothing.
    fn passes(&self)
        ensures { (tested : Tested) (fate : TheFate) (at : ℕ) (e : Seen) (past : List Seen) → concerns tested e.note ≡ false → IsUnder tested fate at e past → Self.agrees self.now tested (fate_before tested fate e past) past → Passes (Self.agrees self.now tested (Some fate)) Self.judges tested fate at e past };

    /// Whether an event may concern it. By default any event may.
    #[inline(always)]
    fn may_concern<E: Taken>(&self, event: &E) -> bool
        ensures { result ≡ false → (tested : Tested) (taken : Option TheFate) (past : List Seen) → Self.agrees self.now tested taken past → concerns tested (E.note event.now) ≡ false }
    {
        let _ = event;
        true
    }
}

impl<A: Selective, B: Selective> Selective for Both<A, B> {
    ghost concerns = { λ tested n. A.concerns tested n || B.concerns tested n };

    fn passes(&self) {
        self.a.passes();
        self.b.passes();
    }
}

/// A watcher for which an event that doesn't concern it is no place of its statements.
pub trait Discerning: Selective + Asks {
    /// The law on such an event: the counts before it are also those after it. The call does
    /// nothing.
    fn leaves_out(&self)
        ensures { (places : Self.Places) (tested : Tested) (fate : TheFate) (at : ℕ) (e : Seen) (past : List Seen) → Self.concerns tested e.note ≡ false → e.place.position < 4294967296 → IsUnder tested fate at e past → Self.agrees self.now tested (fate_before tested fate e past) past → Self.counts places tested (fate_before tested fate e past) past → Self.counts places tested (Some fate) (e ∷ past) };
}

impl<A: Discerning, B: Discerning> Discerning for Both<A, B> {
    fn leaves_out(&self) {
        self.a.leaves_out();
        self.b.leaves_out();
    }
}

/// A watcher that is given only the events that may concern it.
#[derive(Drop)]
pub struct Selecting<W> {
    watcher: W,
}

impl<W> Selecting<W> {
    /// Around this watcher.
    pub fn new(watcher: W) -> Self
        ensures { result ≡ record { watcher = watcher } }
    {
        Selecting { watcher }
    }
}

impl<W: Selective> Fated for Selecting<W> {
    ghost agrees = { λ s. W.agrees s.watcher };

    ghost judges = { W.judges };

    ghost weighs = { λ s. W.weighs s.watcher };

    ghost bound = { W.bound };

    #[inline(always)]
    fn fated<E: Taken>(
        &mut self,
        at: Place3,
        decided: u32,
        fate: Fate,
        event: &E,
        faults: &mut Faults,
    ) -> Result<(), Memory> {
        if !self.watcher.may_concern(event) {
            self.watcher.passes();
            return Ok(());
        }
        self.watcher.fated(at, decided, fate, event, faults)
    }

    fn weight(&self) -> usize {
        self.watcher.weight()
    }
}

impl<W: Discerning> Asks for Selecting<W> {
    type Places = W::Places;

    ghost counts = { W.counts };

    ghost counted = { W.counted };

    ghost on_sessions = { W.on_sessions };

    fn tests(rule: Rule) -> bool {
        W::tests(rule)
    }

    fn no_places() -> W::Places {
        W::no_places()
    }

    #[inline(always)]
    fn count<E: Taken>(
        &self,
        places: &mut W::Places,
        at: Place3,
        decided: u32,
        fate: Fate,
        event: &E,
    ) {
        self.watcher.count(places, at, decided, fate, event);
    }

    #[inline(always)]
    fn count_and_take<E: Taken>(
        &mut self,
        places: &mut W::Places,
        at: Place3,
        decided: u32,
        fate: Fate,
        event: &E,
        faults: &mut Faults,
    ) -> Result<(), Memory> {
        if !self.watcher.may_concern(event) {
            self.watcher.leaves_out();
            self.watcher.passes();
            return Ok(());
        }
        self.watcher
            .count_and_take(places, at, decided, fate, event, faults)
    }

    fn places_of(places: &W::Places, rule: Rule) -> u32 {
        W::places_of(places, rule)
    }
}

impl<W: Selective> Selective for Selecting<W> {
    ghost concerns = { W.concerns };

    fn passes(&self) {
        self.watcher.passes();
    }
}

impl<W: Discerning> Discerning for Selecting<W> {
    fn leaves_out(&self) {
        self.watcher.leaves_out();
    }
}
