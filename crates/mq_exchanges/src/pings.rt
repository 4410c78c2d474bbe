//! Pings and their answers.
ghost use Rattle.std.specs.Prelude.{refl};
ghost use Rattle.std.specs.Prelude.{◌≡◌, ◌<◌, ◌&&◌, ◌||◌, not, [], Some};
ghost use Rattle.mq_rules.specs.declared.note.Note.{Note as TheNote};
ghost use Rattle.mq_rules.specs.declared.fate.Fate.TheVariants.{Void};
ghost use Rattle.mq_rules.specs.declared.rule.Rule.TheVariants.{E7R};
ghost use Rattle.mq_rules.specs.Rules.{same_rule};
ghost use Rattle.mq_rules.specs.Notes.{is_open, is_rest};
ghost use Rattle.mq_rules.specs.Under.{IsKnown, turns_known};
ghost use Rattle.mq_exchanges.specs.Pingings as keeping;
ghost use Rattle.mq_exchanges.specs.Pingings.{IsPings};
ghost use Rattle.mq_fates.specs.Placings.{on_one};
ghost use Rattle.mq_rules.specs.Occasions.{places_under};
ghost use Rattle.mq_exchanges.specs.Concerns.{concerns_pings};
ghost use Rattle.mq_rules.specs.Notes.{note_in};

use mq_fates::{Asks, Discerning, Fated, Selective, Taken, ended_after, judge_by, more};
use mq_log::Place3;
use mq_rules::{Fate, Faults, Memory, Noted, Role, Rule, Tested, places_after};

/// Watches E7R.
#[derive(Drop)]
pub struct Pings {
    role: Role,
    fate: Fate,
    ended: bool,
    asked: u64,
    answered: u64,
}

// How many there are after an event.
fn counted(passes: bool, opens: bool, old: u64, position: u32) -> u64
    ensures { old < position → result ≡ keeping.counted passes opens old }
{
    let old = if opens { 0 } else { old };
    if passes { more(old, position) } else { old }
}

// Whether this is a REST that binds, and a ping wasn't answered.
fn is_unanswered(
    role: Role,
    fate: Fate,
    known: bool,
    ended: bool,
    rests: bool,
    asked: u64,
    answered: u64,
) -> bool
    ensures { (n : TheNote) → rests ≡ is_rest n → result ≡ keeping.unanswered role fate known ended n asked answered }
{
    matches!(role, Role::Server)
        && (fate.accepts()
            && ((rests && (known && (fate.accepts() && !ended))) && answered < asked))
}

impl Pings {
    /// No ping was sent.
    pub fn new(tested: Tested) -> Self
        ensures { ⟦<Pings as Fated>⟧.agrees result tested (Some Void) [] }
    {
        Pings {
            role: tested.role,
            fate: Fate::Void,
            ended: false,
            asked: 0,
            answered: 0,
        }
    }
}

impl Fated for Pings {
    ghost agrees = { IsPings };

    ghost judges = { λ r. same_rule r E7R };

    ghost weighs = { λ s. 0 };

    ghost bound = { λ tested taken past. 0 };

    #[inline(always)]
    fn fated<E: Taken>(
        &mut self,
        at: Place3,
        decided: u32,
        fate: Fate,
        event: &E,
        faults: &mut Faults,
    ) -> Result<(), Memory> {
        let opens = event.is_open();
        let known = decided == at.position;
        let broken = is_unanswered(
            self.role,
            fate,
            known,
            self.ended,
            event.is_rest(),
            self.asked,
            self.answered,
        );
        self.asked = counted(event.is_received_pingreq(), opens, self.asked, at.position);
        self.answered = counted(event.is_sent_pingresp(), opens, self.answered, at.position);
        self.ended = ended_after(self.ended, event);
        self.fate = fate;
        judge_by(Rule::E7R, broken, at, decided, faults)?;
        Ok(())
    }

    fn weight(&self) -> usize {
        0
    }
}

impl Selective for Pings {
    ghost concerns = { λ tested. concerns_pings };

    fn passes(&self) {}

    #[inline(always)]
    fn may_concern<E: Taken>(&self, event: &E) -> bool {
        event.may_concern_pings()
    }
}

// Whether this is a REST that binds, on a connection on which a PINGREQ came.
#[inline(always)]
fn is_put_to_test(role: Role, fate: Fate, known: bool, ended: bool, rests: bool, asked: u64) -> bool
    ensures { (n : TheNote) → rests ≡ is_rest n → result ≡ keeping.pinged role fate known ended n asked }
{
    matches!(role, Role::Server)
        && (fate.accepts() && ((rests && (known && (fate.accepts() && !ended))) && 0 < asked))
}

impl Asks for Pings {
    type Places = u32;

    ghost counted = { ⟦<Pings as Fated>⟧.judges };

    ghost counts = { λ n tested taken past. n ≡ places_under tested taken past E7R };

    ghost on_sessions = { λ role rule judged. on_one role E7R rule refl judged };

    fn tests(rule: Rule) -> bool {
        rule == Rule::E7R
    }

    fn no_places() -> u32 {
        0
    }

    #[inline(always)]
    fn count<E: Taken>(&self, places: &mut u32, at: Place3, decided: u32, fate: Fate, event: &E) {
        let here = is_put_to_test(
            self.role,
            fate,
            decided == at.position,
            self.ended,
            event.is_rest(),
            self.asked,
        );
        *places = places_after(here, *places, at.position);
    }

    fn places_of(places: &u32, _: Rule) -> u32 {
        *places
    }
}

impl Discerning for Pings {
    fn leaves_out(&self) {}
}
