//! How often B08, B09, P01, P02, R01 and R02 are put to the test.
ghost use Rattle.std.specs.Prelude.{◌≡◌, nat_eq, true, ℕ, Bool, List, Some};
ghost use Rattle.indexmap.specs.IndexMap.{get};
ghost use Rattle.mq_rules.specs.declared.rule.Rule.TheVariants.{B08, B09, P01, P02, R01, R02};
ghost use Rattle.mq_rules.specs.declared.packet_note.PublishNote.{PublishNote as ThePublish};
ghost use Rattle.mq_rules.specs.Notes.{note_in, sent_publish};
ghost use Rattle.mq_rules.specs.Connections.{accepts};
ghost use Rattle.mq_rules.specs.MatchingSubscriptions.{Subscribed};
ghost use Rattle.mq_rules.specs.Occasions.{places_under};
ghost use Rattle.mq_subscriptions.specs.Grouping.{on_matching, of_matching};
ghost use Rattle.mq_subscriptions.specs.Verdicts as judging;
ghost use Rattle.mq_subscriptions.specs.Verdicts.{said_of, Answered};

use super::Matching;
use super::verdicts::Verdicts;
use mq_fates::{Asks, Discerning, Taken, pick};
use mq_log::Place3;
use mq_rules::{Fate, NoteRef, Noted, Rule, places_after};

/// How often the statements on the subscriptions that match were put to the test.
#[derive(Drop)]
pub struct MatchingPlaces {
    // B08.
    matched: u32,
    // B09.
    granted: u32,
    // P01.
    named: u32,
    // P02.
    identified: u32,
    // R01.
    unretained: u32,
    // R02.
    unshared: u32,
}

impl Matching {
    // What an event puts to the test, where the statements are judged.
    fn tested_by(&self, fate: Fate, event: NoteRef<'_>) -> Verdicts
        ensures { (matching : List ℕ → (Subscribed → Bool) → Bool) → (self.now.bound ≡ true → accepts fate ≡ true → (p : ThePublish) → sent_publish (note_in event.entry) ≡ Some p → Answered self.now.subscriptions matching) → result ≡ judging.of_event self.now.bound fate self.now.unclear (λ p topic. said_of true self.now.sharing (judging.takes_by self.now.refusing) p (matching topic)) (get nat_eq self.now.topics) (note_in event.entry) }
    {
        match event {
            NoteRef::Kept(note) => self.judge(true, fate, note),
            NoteRef::Bare(bare) => self.judge(true, fate, &bare.note()),
        }
    }
}

impl Asks for Matching {
    type Places = MatchingPlaces;

    ghost counted = { of_matching };

    ghost counts = { λ n tested taken past. (n.matched ≡ places_under tested taken past B08) × (n.granted ≡ places_under tested taken past B09) × (n.named ≡ places_under tested taken past P01) × (n.identified ≡ places_under tested taken past P02) × (n.unretained ≡ places_under tested taken past R01) × (n.unshared ≡ places_under tested taken past R02) };

    ghost on_sessions = { on_matching };

    fn tests(rule: Rule) -> bool {
        rule == Rule::B08
            || (rule == Rule::B09
                || (rule == Rule::P01
                    || (rule == Rule::P02 || (rule == Rule::R01 || rule == Rule::R02))))
    }

    fn no_places() -> MatchingPlaces {
        MatchingPlaces {
            matched: 0,
            granted: 0,
            named: 0,
            identified: 0,
            unretained: 0,
            unshared: 0,
        }
    }

    #[inline(always)]
    fn count<E: Taken>(
        &self,
        places: &mut MatchingPlaces,
        at: Place3,
        _: u32,
        fate: Fate,
        event: &E,
    ) {
        if !self.bound {
            return;
        }
        let event = event.as_ref();
        let tests = self.tested_by(fate, event);
        places.matched = places_after(tests.matched, places.matched, at.position);
        places.granted = places_after(tests.granted, places.granted, at.position);
        places.named = places_after(tests.named, places.named, at.position);
        places.identified = places_after(tests.identified, places.identified, at.position);
        places.unretained = places_after(tests.unretained, places.unretained, at.position);
        places.unshared = places_after(tests.unshared, places.unshared, at.position);
    }

    fn places_of(places: &MatchingPlaces, rule: Rule) -> u32 {
        let last = pick(rule == Rule::R01, places.unretained, places.unshared);
        let later = pick(rule == Rule::P02, places.identified, last);
        let named = pick(rule == Rule::P01, places.named, later);
        let others = pick(rule == Rule::B09, places.granted, named);
        pick(rule == Rule::B08, places.matched, others)
    }
}

impl Discerning for Matching {
    fn leaves_out(&self) {}
}
