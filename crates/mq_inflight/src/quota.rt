//! The send quota.
ghost use Rattle.std.specs.Prelude.{refl};
ghost use Rattle.std.specs.Prelude.{◌≡◌, ◌<◌, ◌+◌, ◌-◌, ◌&&◌, ℕ, [], OnErr, OnOk, Some, None, is_some, nat_le, unwrap_or};
ghost use Rattle.mq_rules.specs.declared.fate.Fate.TheVariants.{Void};
ghost use Rattle.mq_rules.specs.declared.rule.Rule.TheVariants.{S07};
ghost use Rattle.mq_rules.specs.Rules.{same_rule};
ghost use Rattle.mq_rules.specs.Words.{only};
ghost use Rattle.mq_rules.specs.Connections.{accepts};
ghost use Rattle.mq_rules.specs.Notes.{is_open, delivery_of};
ghost use Rattle.std.specs.Option.{option_or};
ghost use Rattle.std.specs.Prelude.{cond};
ghost use Rattle.mq_rules.specs.Under.{IsKnown, turns_known};
ghost use Rattle.mq_inflight.specs.Quotas as keeping;
ghost use Rattle.mq_inflight.specs.Quotas.{IsQuota};
ghost use Rattle.mq_fates.specs.Judgements.{judged_by};
ghost use Rattle.mq_fates.specs.Taking.{announced};
ghost use Rattle.mq_fates.specs.Placings.{on_one};
ghost use Rattle.mq_rules.specs.Occasions.{places_under};
ghost use Rattle.mq_inflight.specs.Concerns.{concerns_quota};
ghost use Rattle.mq_rules.specs.Notes.{note_in};

use mq_fates::{Asks, Discerning, Fated, RECEIVE_MAXIMUM, Selective, Taken, judge_by, more};
use mq_log::Place3;
use mq_rules::{Fate, Faults, Memory, Noted, Role, Rule, Tested, places_after};

/// Watches S07.
#[derive(Drop)]
pub struct Quota {
    role: Role,
    fate: Fate,
    peer: Option<u16>,
    in_flight: u64,
}

/// Whether the next event counts.
pub fn may_count(role: Role, peer: Option<u16>) -> bool
    ensures { result ≡ keeping.may_count role peer }
{
    match role {
        Role::Client => peer.is_some(),
        Role::Server => true,
    }
}

/// What is in flight after an event.
#[inline(always)]
pub fn flown<E: Taken>(counted: bool, delivers: bool, event: &E, old: u64, position: u32) -> u64
    ensures { old < position → delivers ≡ is_some (delivery_of (E.note event.now)) → result ≡ keeping.flown counted (E.note event.now) old }
{
    if event.is_open() {
        return 0;
    }
    flown_by(counted, delivers, event.closer().is_some(), old, position)
}

/// What the peer has announced after an event.
#[inline(always)]
pub fn peer_after<E: Taken>(role: Role, peer: Option<u16>, event: &E) -> Option<u16>
    ensures { result ≡ option_or (cond (is_open (E.note event.now)) None peer) (announced role (E.note event.now)) }
{
    let peer = if event.is_open() { None } else { peer };
    peer.or(event.announced(role))
}

impl Quota {
    /// Nothing is in flight.
    pub fn new(tested: Tested) -> Self
        ensures { ⟦<Quota as Fated>⟧.agrees result tested (Some Void) [] }
    {
        Quota {
            role: tested.role,
            fate: Fate::Void,
            peer: None,
            in_flight: 0,
        }
    }
}

/// What is in flight after a packet that counts, or one that sets an identifier free.
#[inline(always)]
pub fn flown_by(counted: bool, delivers: bool, closes: bool, old: u64, position: u32) -> u64
    ensures { old < position → result ≡ cond counted (cond delivers (old + 1) (cond closes (old - 1) old)) old }
{
    if !counted {
        return old;
    }
    if delivers {
        return more(old, position);
    }
    if closes {
        return old.saturating_sub(1);
    }
    old
}

impl Quota {
    // Whether a packet passes the quota, where it counts or not.
    #[inline(always)]
    fn is_past(&self, fate: Fate, delivers: bool) -> bool
        ensures { result ≡ (accepts fate && (delivers && (keeping.may_count self.now.role self.now.peer && nat_le (unwrap_or self.now.peer 65535) self.now.in_flight))) }
    {
        fate.accepts()
            && (delivers
                && (may_count(self.role, self.peer)
                    && u64::from(self.peer.unwrap_or(RECEIVE_MAXIMUM)) <= self.in_flight))
    }

    // Takes in an event, which may be a PUBLISH that counts.
    #[inline(always)]
    fn take<E: Taken>(
        &mut self,
        at: Place3,
        decided: u32,
        fate: Fate,
        event: &E,
        delivers: bool,
        faults: &mut Faults,
    ) -> Result<(), Memory>
        ensures kept { self.old.in_flight < at.position → delivers ≡ is_some (delivery_of (E.note event.now)) → self.new ≡ keeping.quota_after self.old fate (E.note event.now) }
        ensures judged { OnOk result (faults.new ≡ judged_by (accepts fate && (delivers && (keeping.may_count self.old.role self.old.peer && nat_le (unwrap_or self.old.peer 65535) self.old.in_flight))) S07 at decided faults.old) }
        ensures unchanged { OnErr result (faults.new ≡ faults.old) }
    {
        let broken = self.is_past(fate, delivers);
        let counted = may_count(self.role, self.peer);
        self.in_flight = flown(counted, delivers, event, self.in_flight, at.position);
        self.peer = peer_after(self.role, self.peer, event);
        self.fate = fate;
        judge_by(Rule::S07, broken, at, decided, faults)
    }
}

impl Fated for Quota {
    ghost agrees = { IsQuota };

    ghost judges = { λ r. same_rule r S07 };

    ghost weighs = { λ s. 0 };

    ghost bound = { λ tested taken past. 0 };

    #[inline(always)]
    fn fated<E: Taken>(
        &mut self,
        at: Place3,
        decided: u32,
        fate: Fate,
        event: &E,
        faults: &mut Faults,
    ) -> Result<(), Memory> {
        let delivers = event.delivery().is_some();
        self.take(at, decided, fate, event, delivers, faults)?;
        Ok(())
    }

    fn weight(&self) -> usize {
        0
    }
}

impl Selective for Quota {
    ghost concerns = { concerns_quota };

    fn passes(&self) {}

    #[inline(always)]
    fn may_concern<E: Taken>(&self, event: &E) -> bool {
        event.may_concern_quota()
    }
}

impl Quota {
    // Whether a packet uses up the quota, or passes it, on a connection of this fate.
    #[inline(always)]
    fn is_used_up(&self, fate: Fate, delivers: bool, position: u32) -> bool
        ensures { self.now.in_flight < position → result ≡ (accepts fate && (delivers && (keeping.may_count self.now.role self.now.peer && nat_le (unwrap_or self.now.peer 65535) (self.now.in_flight + 1)))) }
    {
        fate.accepts()
            && (delivers
                && (may_count(self.role, self.peer)
                    && u64::from(self.peer.unwrap_or(RECEIVE_MAXIMUM))
                        <= more(self.in_flight, position)))
    }
}

impl Asks for Quota {
    type Places = u32;

    ghost counted = { ⟦<Quota as Fated>⟧.judges };

    ghost counts = { λ n tested taken past. n ≡ places_under tested taken past S07 };

    ghost on_sessions = { λ role rule judged. on_one role S07 rule refl judged };

    fn tests(rule: Rule) -> bool {
        rule == Rule::S07
    }

    fn no_places() -> u32 {
        0
    }

    #[inline(always)]
    fn count<E: Taken>(&self, places: &mut u32, at: Place3, _: u32, fate: Fate, event: &E) {
        let here = self.is_used_up(fate, event.delivery().is_some(), at.position);
        *places = places_after(here, *places, at.position);
    }

    // Whether it is a PUBLISH that counts is asked once.
    #[inline(always)]
    fn count_and_take<E: Taken>(
        &mut self,
        places: &mut u32,
        at: Place3,
        decided: u32,
        fate: Fate,
        event: &E,
        faults: &mut Faults,
    ) -> Result<(), Memory> {
        let delivers = event.delivery().is_some();
        let here = self.is_used_up(fate, delivers, at.position);
        *places = places_after(here, *places, at.position);
        self.take(at, decided, fate, event, delivers, faults)?;
        Ok(())
    }

    fn places_of(places: &u32, _: Rule) -> u32 {
        *places
    }
}

impl Discerning for Quota {
    fn leaves_out(&self) {}
}
