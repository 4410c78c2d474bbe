//! Whether what a server delivers is what the subscriptions that match it ask for: also shared ones,
//! Subscription Identifiers, and the RETAIN flag (MQTT 5.0, sections 3.3.1.3, 3.3.4, 3.8.3.1, 3.8.4
//! and 4.8.2).
ghost use Rattle.std.specs.Prelude.{◌≡◌, ◌&&◌, ◌*◌, ◌∷◌, ℕ, Bool, List, [], Some, None, true, false, cond, option_map, nat_eq, OnOk, OnErr};
ghost use Rattle.indexmap.specs.IndexMap.{get};
ghost use Rattle.mq_rules.specs.declared.rule.Rule.{Rule as TheRule};
ghost use Rattle.mq_rules.specs.declared.rule.Rule.TheVariants.{B08};
ghost use Rattle.mq_rules.specs.declared.fate.Fate.TheVariants.{Void};
ghost use Rattle.mq_rules.specs.declared.role.Tested.{Tested as TheTested};
ghost use Rattle.mq_rules.specs.declared.note.Seen.{Seen};
ghost use Rattle.mq_rules.specs.declared.packet_note.PublishNote.{PublishNote as ThePublish};
ghost use Rattle.mq_rules.specs.Notes.{is_boundary, note_in, sent_connack, sent_publish};
ghost use Rattle.mq_rules.specs.Connections.{accepts};
ghost use Rattle.mq_rules.specs.MatchingSubscriptions.{Subscribed};
ghost use Rattle.mq_rules.specs.Rules.{binds as is_bound};
ghost use Rattle.mq_rules.specs.Under.{seen, IsUnder, fate_before, turns_with};
ghost use Rattle.mq_rules.specs.Growing.{Gains, GainsWithin};
ghost use Rattle.mq_subscriptions.specs.Burden.{matching_burden};
ghost use Rattle.mq_subscriptions.specs.Concerns.{concerns_matching};
ghost use Rattle.mq_subscriptions.specs.Grouping.{of_matching};
ghost use Rattle.mq_subscriptions.specs.Subscribings.{AreKept, TakesInEvent};
ghost use Rattle.mq_subscriptions.specs.Verdicts as judging;
ghost use Rattle.mq_subscriptions.specs.Verdicts.{said_of, Answered, IsBeside, TakesBeside, Blames};
ghost use Rattle.mq_subscriptions.specs.Weights.{matching_weigh};

mod asking;
mod verdicts;

use crate::deletions::is_unclear;
use crate::subs::shares;
use crate::subscribed::Subscriptions;
use crate::topics::{take_topic, topic_of};
pub use asking::MatchingPlaces;
use indexmap::IndexMap;
use mq_fates::{Fated, Selective, Taken, judge_by, map_size};
use mq_log::Place3;
use mq_rules::{
    ConnackNote, Fate, Faults, Memory, Note, NoteRef, Noted, PublishNote, Rule, Tested, Text,
};
use std::alloc::Global;
use verdicts::{Verdicts, nothing, verdicts_on};

// ---- Subscription Identifiers

// Whether a CONNACK says that the server takes no Subscription Identifiers (MQTT 5.0, section
// 3.2.2.3.12).
fn refuses_identifiers(connack: &ConnackNote) -> bool
    ensures { result ≡ judging.refuses_identifiers connack.now }
{
    connack.subscription_identifier_available == Some(0)
}

// What the first CONNACK of the open connection said of that, unless an event ends or begins one.
fn refusing_still(note: &Note, old: Option<bool>) -> Option<bool>
    ensures { result ≡ cond (is_boundary note.now) None old }
{
    if note.is_boundary() {
        return None;
    }
    old
}

// What an event says of it, if it sends a CONNACK.
fn refusing_now(note: &Note) -> Option<bool>
    ensures { result ≡ option_map judging.refuses_identifiers (sent_connack note.now) }
{
    match note.sent_connack() {
        Some(connack) => Some(refuses_identifiers(connack)),
        None => None,
    }
}

// What is kept of it after an event.
fn refusing_after(note: &Note, old: Option<bool>) -> Option<bool>
    ensures { result ≡ judging.refusing_next note.now old }
{
    refusing_still(note, old).or(refusing_now(note))
}

// ---- faults

// Adds the faults of an event that breaks these statements.
fn blame(broken: Verdicts, at: Place3, decided: u32, faults: &mut Faults) -> Result<(), Memory>
    ensures grows { OnOk result ((turns : ℕ → TheRule → Bool) (tested : TheTested) (log : List Seen) → Blames turns broken at decided tested log → Gains (λ k r. of_matching r && turns k r) tested log decided faults.old faults.new) }
    ensures memory { OnErr result ((turns : ℕ → TheRule → Bool) (tested : TheTested) (log : List Seen) → Blames turns broken at decided tested log → GainsWithin (λ k r. of_matching r && turns k r) tested log decided faults.old faults.new) }
{
    judge_by(Rule::B08, broken.matched, at, decided, faults)?;
    judge_by(Rule::B09, broken.granted, at, decided, faults)?;
    judge_by(Rule::P01, broken.named, at, decided, faults)?;
    judge_by(Rule::P02, broken.identified, at, decided, faults)?;
    judge_by(Rule::R01, broken.unretained, at, decided, faults)?;
    judge_by(Rule::R02, broken.unshared, at, decided, faults)?;
    Ok(())
}

// ---- the watcher

/// Watches B08, B09, P01, P02, R01 and R02. It keeps nothing unless they are judged.
#[derive(Drop)]
pub struct Matching {
    alloc: Global,
    bound: bool,
    subscriptions: Subscriptions,
    /// Whether the session has asked for a shared subscription.
    sharing: bool,
    /// Whether bytes of the session may have been a request that nobody can read.
    unclear: bool,
    /// Whether the first CONNACK of the open connection refuses Subscription Identifiers.
    refusing: Option<bool>,
    /// The topics of the open connection, by their Topic Alias.
    topics: IndexMap<u16, Text>,
}

impl Matching {
    /// There is no subscription.
    pub fn new(alloc: Global, tested: Tested) -> Self
        ensures { ⟦<Matching as Fated>⟧.agrees result tested (Some Void) [] }
    {
        Matching {
            alloc,
            bound: Rule::B08.is_judged(tested),
            subscriptions: Subscriptions::new(alloc),
            sharing: false,
            unclear: false,
            refusing: None,
            topics: IndexMap::new(alloc),
        }
    }

    /// Whether the statements are judged.
    #[inline(always)]
    pub fn is_bound(&self) -> bool
        ensures { result ≡ self.now.bound }
    {
        self.bound
    }
}

impl Matching {
    // Whether the server takes Subscription Identifiers on the open connection.
    fn takes(&self) -> bool
        ensures { result ≡ judging.takes_by self.now.refusing }
    {
        match self.refusing {
            Some(refusing) => !refusing,
            None => true,
        }
    }

    // What a PUBLISH with this topic breaks, or puts to the test.
    fn judge_topic(&self, wide: bool, publish: &PublishNote, topic: &str) -> Verdicts
        ensures { (matching : List ℕ → (Subscribed → Bool) → Bool) → Answered self.now.subscriptions matching → result ≡ said_of wide self.now.sharing (judging.takes_by self.now.refusing) publish.now (matching topic.now) }
    {
        let found = self.subscriptions.matched(self.alloc, topic);
        let identifiers = publish.subscription_identifiers.as_slice();
        let unnamed = self.subscriptions.lacks_one(self.alloc, topic, identifiers);
        let takes = self.takes();
        verdicts_on(wide, self.sharing, takes, publish, &found, unnamed)
    }

    // The same of any PUBLISH.
    fn judge_publish(&self, wide: bool, publish: &PublishNote) -> Verdicts
        ensures { (matching : List ℕ → (Subscribed → Bool) → Bool) → Answered self.now.subscriptions matching → result ≡ judging.of_publish (λ p topic. said_of wide self.now.sharing (judging.takes_by self.now.refusing) p (matching topic)) (get nat_eq self.now.topics) publish.now }
    {
        if publish.duplicate {
            return nothing();
        }
        match topic_of(publish, &self.topics) {
            Some(topic) => self.judge_topic(wide, publish, topic),
            None => nothing(),
        }
    }

    // The same of an event.
    fn judge_note(&self, wide: bool, note: &Note) -> Verdicts
        ensures { (matching : List ℕ → (Subscribed → Bool) → Bool) → ((p : ThePublish) → sent_publish note.now ≡ Some p → Answered self.now.subscriptions matching) → result ≡ judging.of_note (λ p topic. said_of wide self.now.sharing (judging.takes_by self.now.refusing) p (matching topic)) (get nat_eq self.now.topics) note.now }
    {
        match note.sent_publish() {
            Some(publish) => self.judge_publish(wide, publish),
            None => nothing(),
        }
    }

    // The same, if the statements are judged, of an event of a connection that has this fate.
    fn judge(&self, wide: bool, fate: Fate, note: &Note) -> Verdicts
        ensures { (matching : List ℕ → (Subscribed → Bool) → Bool) → (self.now.bound ≡ true → accepts fate ≡ true → (p : ThePublish) → sent_publish note.now ≡ Some p → Answered self.now.subscriptions matching) → result ≡ judging.of_event self.now.bound fate self.now.unclear (λ p topic. said_of wide self.now.sharing (judging.takes_by self.now.refusing) p (matching topic)) (get nat_eq self.now.topics) note.now }
    {
        if !self.bound {
            return nothing();
        }
        if !fate.accepts() {
            return nothing();
        }
        if self.unclear {
            return nothing();
        }
        self.judge_note(wide, note)
    }

    // Takes in an event, if the statements are judged.
    fn take_bound(&mut self, fate: Fate, note: &Note) -> Result<(), Memory>
        ensures subscriptions { OnOk result (self.old.bound ≡ true → TakesInEvent fate note.now self.old.subscriptions self.new.subscriptions) }
        ensures beside { OnOk result (self.old.bound ≡ true → TakesBeside fate note.now self.old.sharing self.new.sharing self.old.unclear self.new.unclear self.old.refusing self.new.refusing (get nat_eq self.old.topics) (get nat_eq self.new.topics)) }
        ensures left { OnOk result (self.old.bound ≡ false → self.new ≡ self.old) }
        ensures bound { OnOk result (self.new.bound ≡ self.old.bound) }
    {
        if !self.bound {
            return Ok(());
        }
        let alloc = self.alloc;
        self.subscriptions.take_in(alloc, fate, note)?;
        take_topic(alloc, &mut self.topics, note)?;
        self.sharing = shares(fate, note, self.sharing);
        self.unclear = is_unclear(fate, note, self.unclear);
        self.refusing = refusing_after(note, self.refusing);
        Ok(())
    }

    // Takes in an event by its note.
    fn take_noted(
        &mut self,
        at: Place3,
        decided: u32,
        fate: Fate,
        note: &Note,
        faults: &mut Faults,
    ) -> Result<(), Memory>
        ensures agrees { OnOk result ((tested : TheTested) (past : List Seen) → IsUnder tested fate decided (seen at note.now) past → ⟦<Matching as Fated>⟧.agrees self.old tested (fate_before tested fate (seen at note.now) past) past → ⟦<Matching as Fated>⟧.agrees self.new tested (Some fate) (seen at note.now ∷ past)) }
        ensures grows { OnOk result ((tested : TheTested) (past : List Seen) → IsUnder tested fate decided (seen at note.now) past → ⟦<Matching as Fated>⟧.agrees self.old tested (fate_before tested fate (seen at note.now) past) past → Gains (λ k r. of_matching r && turns_with tested fate (seen at note.now) past k r) tested (seen at note.now ∷ past) decided faults.old faults.new) }
        ensures memory { OnErr result ((tested : TheTested) (past : List Seen) → IsUnder tested fate decided (seen at note.now) past → ⟦<Matching as Fated>⟧.agrees self.old tested (fate_before tested fate (seen at note.now) past) past → GainsWithin (λ k r. of_matching r && turns_with tested fate (seen at note.now) past k r) tested (seen at note.now ∷ past) decided faults.old faults.new) }
    {
        let broken = self.judge(false, fate, note);
        self.take_bound(fate, note)?;
        blame(broken, at, decided, faults)?;
        Ok(())
    }

    // Takes in any event, where the statements are judged. A bare packet is taken in by a note.
    #[inline(never)]
    fn take_event(
        &mut self,
        at: Place3,
        decided: u32,
        fate: Fate,
        event: NoteRef<'_>,
        faults: &mut Faults,
    ) -> Result<(), Memory>
        ensures agrees { OnOk result ((tested : TheTested) (past : List Seen) → IsUnder tested fate decided (seen at (note_in event.entry)) past → ⟦<Matching as Fated>⟧.agrees self.old tested (fate_before tested fate (seen at (note_in event.entry)) past) past → ⟦<Matching as Fated>⟧.agrees self.new tested (Some fate) (seen at (note_in event.entry) ∷ past)) }
        ensures grows { OnOk result ((tested : TheTested) (past : List Seen) → IsUnder tested fate decided (seen at (note_in event.entry)) past → ⟦<Matching as Fated>⟧.agrees self.old tested (fate_before tested fate (seen at (note_in event.entry)) past) past → Gains (λ k r. of_matching r && turns_with tested fate (seen at (note_in event.entry)) past k r) tested (seen at (note_in event.entry) ∷ past) decided faults.old faults.new) }
        ensures memory { OnErr result ((tested : TheTested) (past : List Seen) → IsUnder tested fate decided (seen at (note_in event.entry)) past → ⟦<Matching as Fated>⟧.agrees self.old tested (fate_before tested fate (seen at (note_in event.entry)) past) past → GainsWithin (λ k r. of_matching r && turns_with tested fate (seen at (note_in event.entry)) past k r) tested (seen at (note_in event.entry) ∷ past) decided faults.old faults.new) }
    {
        match event {
            NoteRef::Kept(note) => self.take_noted(at, decided, fate, note, faults),
            NoteRef::Bare(bare) => {
                let note = bare.note();
                self.take_noted(at, decided, fate, &note, faults)
            }
        }
    }
}

impl Fated for Matching {
    ghost agrees = { λ s tested taken past. (s.bound ≡ is_bound B08 tested) × (s.bound ≡ false → matching_weigh s ≡ 0) × (s.bound ≡ true → AreKept s.subscriptions tested taken past × IsBeside s.sharing s.unclear s.refusing (get nat_eq s.topics) tested taken past) };

    ghost judges = { of_matching };

    ghost weighs = { matching_weigh };

    ghost bound = { λ tested taken past. 4 * matching_burden tested taken past };

    #[inline(always)]
    fn fated<E: Taken>(
        &mut self,
        at: Place3,
        decided: u32,
        fate: Fate,
        event: &E,
        faults: &mut Faults,
    ) -> Result<(), Memory> {
        if !self.bound {
            self.passes();
            return Ok(());
        }
        let event = event.as_ref();
        self.take_event(at, decided, fate, event, faults)
    }

    // The sets and the map of subscriptions, and the map of topics.
    fn weight(&self) -> usize {
        self.subscriptions
            .size()
            .saturating_add(map_size(&self.topics))
    }
}

impl Selective for Matching {
    ghost concerns = { concerns_matching };

    fn passes(&self) {}
}
