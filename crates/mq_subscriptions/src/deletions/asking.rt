//! How often B06 and B07 are put to the test.
ghost use Rattle.std.specs.Prelude.{◌≡◌, ◌&&◌, ◌||◌, nat_eq, true, refl};
ghost use Rattle.indexmap.specs.IndexMap.{get, get_by_text};
ghost use Rattle.mq_rules.specs.declared.rule.Rule.TheVariants.{B06, B07};
ghost use Rattle.mq_rules.specs.Notes.{note_in, note_of_bare, sent_deletion};
ghost use Rattle.mq_rules.specs.Connections.{accepts};
ghost use Rattle.mq_rules.specs.Rules.{same_rule};
ghost use Rattle.mq_rules.specs.Occasions.{occasion, places_under};
ghost use Rattle.mq_fates.specs.Placings.{is_on_sessions, on_either, on_one};
ghost use Rattle.mq_subscriptions.specs.Deletings as deletings;

use super::Deletions;
use mq_fates::{Asks, Discerning, Fated, Taken, pick};
use mq_log::Place3;
use mq_rules::{Fate, NoteRef, Noted, Rule, places_after};

/// How often the statements on what an UNSUBACK says were put to the test.
#[derive(Drop)]
pub struct DeletionPlaces {
    // B06.
    stood: u32,
    // B07.
    told: u32,
}

impl Deletions {
    // Whether they are judged, and the event puts B06 to the test. A bare packet is no UNSUBACK.
    #[inline(always)]
    #[tactic(auto, unfolding(mq_rules::specs::Notes::note_of_bare))]
    fn is_stood(&self, fate: Fate, event: NoteRef<'_>) -> bool
        ensures { result ≡ (self.now.bound && (accepts fate && deletings.deletes_kept (deletings.denies_kept true (get_by_text self.now.states)) self.now.unclear (get nat_eq self.now.removing) (sent_deletion (note_in event.entry)))) }
    {
        match event {
            NoteRef::Kept(note) => self.finds_denied(true, fate, note),
            NoteRef::Bare(_) => false,
        }
    }

    // The same of B07.
    #[inline(always)]
    #[tactic(auto, unfolding(mq_rules::specs::Notes::note_of_bare))]
    fn is_told(&self, fate: Fate, event: NoteRef<'_>) -> bool
        ensures { result ≡ (self.now.bound && (accepts fate && deletings.deletes_kept (deletings.invents_kept true (get_by_text self.now.states)) self.now.unclear (get nat_eq self.now.removing) (sent_deletion (note_in event.entry)))) }
    {
        match event {
            NoteRef::Kept(note) => self.finds_invented(true, fate, note),
            NoteRef::Bare(_) => false,
        }
    }
}

impl Asks for Deletions {
    type Places = DeletionPlaces;

    ghost counted = { ⟦<Deletions as Fated>⟧.judges };

    ghost counts = { λ n tested taken past. (n.stood ≡ places_under tested taken past B06) × (n.told ≡ places_under tested taken past B07) };

    ghost on_sessions = { λ role rule judged. on_either (same_rule rule B06) (same_rule rule B07) (is_on_sessions (occasion role rule)) (on_one role B06 rule refl) (on_one role B07 rule refl) judged };

    fn tests(rule: Rule) -> bool {
        rule == Rule::B06 || rule == Rule::B07
    }

    fn no_places() -> DeletionPlaces {
        DeletionPlaces { stood: 0, told: 0 }
    }

    #[inline(always)]
    fn count<E: Taken>(
        &self,
        places: &mut DeletionPlaces,
        at: Place3,
        _: u32,
        fate: Fate,
        event: &E,
    ) {
        let event = event.as_ref();
        let stood = self.is_stood(fate, event);
        let told = self.is_told(fate, event);
        places.stood = places_after(stood, places.stood, at.position);
        places.told = places_after(told, places.told, at.position);
    }

    fn places_of(places: &DeletionPlaces, rule: Rule) -> u32 {
        pick(rule == Rule::B06, places.stood, places.told)
    }
}

impl Discerning for Deletions {
    fn leaves_out(&self) {}
}
