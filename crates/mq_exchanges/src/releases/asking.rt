//! How often L1, L2 and L3 are put to the test.
ghost use Rattle.std.specs.Prelude.{◌≡◌, ◌&&◌, ◌||◌, is_some, refl, Some};
ghost use Rattle.mq_rules.specs.declared.rule.Rule.TheVariants.{L1, L2, L3};
ghost use Rattle.mq_rules.specs.Words.{is_some_and};
ghost use Rattle.mq_rules.specs.Notes.{note_in, released_id};
ghost use Rattle.mq_rules.specs.Connections.{accepts};
ghost use Rattle.mq_rules.specs.Rules.{same_rule};
ghost use Rattle.mq_rules.specs.Occasions.{occasion, places_under};
ghost use Rattle.mq_fates.specs.Placings.{is_on_sessions, on_either, on_one};
ghost use Rattle.mq_exchanges.specs.Releasing.{has_id};

use super::Releases;
use mq_fates::{Asks, Discerning, Fated, Taken, is_placed, pick, place};
use mq_log::Place3;
use mq_rules::{CountedByIdentifier, Fate, NoteRef, Noted, Rule, places_after};

/// How often the statements on releases were put to the test.
#[derive(Drop)]
pub struct ReleasePlaces {
    // L1, and L2: at each RELEASE.
    released: u32,
    // L3.
    completed: u32,
}

// Whether releases are recorded, and the event is one.
#[inline(always)]
fn is_released(releases: bool, event: NoteRef<'_>) -> bool
    ensures { result ≡ (releases && is_some (released_id (note_in event.entry))) }
{
    releases && event.released_identifier().is_some()
}

// Whether releases are recorded, and an exchange is completed with success whose message needs one.
fn is_completed(
    releases: bool,
    fate: Fate,
    completed: Option<u16>,
    due: &CountedByIdentifier<()>,
) -> bool
    ensures { result ≡ (releases && (accepts fate && is_some_and (has_id due.now) completed)) }
{
    releases
        && fate.accepts()
        && match completed {
            Some(i) => due.contains(i),
            None => false,
        }
}

impl Asks for Releases {
    type Places = ReleasePlaces;

    ghost counted = { ⟦<Releases as Fated>⟧.judges };

    ghost counts = { λ n tested taken past. (n.released ≡ places_under tested taken past L1) × (n.released ≡ places_under tested taken past L2) × (n.completed ≡ places_under tested taken past L3) };

    fn tests(rule: Rule) -> bool {
        (rule == Rule::L1 || rule == Rule::L2) || rule == Rule::L3
    }

    fn no_places() -> ReleasePlaces {
        ReleasePlaces {
            released: 0,
            completed: 0,
        }
    }

    #[inline(always)]
    fn count<E: Taken>(
        &self,
        places: &mut ReleasePlaces,
        at: Place3,
        decided: u32,
        fate: Fate,
        event: &E,
    ) {
        let event = event.as_ref();
        let placed = is_placed(fate, decided == at.position);
        let released = place(placed, is_released(self.releases, event));
        let success = event.sent_success_pubcomp();
        let completed = is_completed(self.releases, fate, success, &self.due);
        places.released = places_after(released, places.released, at.position);
        places.completed = places_after(completed, places.completed, at.position);
    }

    fn places_of(places: &ReleasePlaces, rule: Rule) -> u32 {
        pick(rule == Rule::L3, places.completed, places.released)
    }

    ghost on_sessions = { λ role rule judged. on_either (same_rule rule L1 || same_rule rule L2) (same_rule rule L3) (is_on_sessions (occasion role rule)) (on_either (same_rule rule L1) (same_rule rule L2) (is_on_sessions (occasion role rule)) (on_one role L1 rule refl) (on_one role L2 rule refl)) (on_one role L3 rule refl) judged };
}

impl Discerning for Releases {
    fn leaves_out(&self) {}
}
