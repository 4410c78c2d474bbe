//! How often B01 and B02 are put to the test.
ghost use Rattle.std.specs.Prelude.{◌≡◌, ◌&&◌, ◌||◌, ℕ, List, Option, nat_eq, true, refl, Some};
ghost use Rattle.indexmap.specs.IndexMap.{get};
ghost use Rattle.mq_rules.specs.declared.rule.Rule.TheVariants.{B01, B02};
ghost use Rattle.mq_rules.specs.Notes.{note_in, note_of_bare, is_acknowledged as waits};
ghost use Rattle.mq_rules.specs.Connections.{accepts};
ghost use Rattle.mq_rules.specs.Rules.{same_rule};
ghost use Rattle.mq_rules.specs.Occasions.{occasion, places_under};
ghost use Rattle.mq_subscriptions.specs.Standings.{delivers_so};
ghost use Rattle.mq_fates.specs.Placings.{is_on_sessions, on_either, on_one};

use super::{Deliveries, delivery_of, judged_topic, named_topic};
use indexmap::IndexMap;
use mq_fates::{Asks, Discerning, Fated, Taken, is_acknowledged, pick};
use mq_log::Place3;
use mq_rules::{Bare, Fate, Note, NoteRef, Noted, Rule, Text, places_after};

/// How often the statements on deliveries were put to the test.
#[derive(Drop)]
pub struct DeliveryPlaces {
    // B01.
    delivered: u32,
    // B02.
    acknowledged: u32,
}

// Whether a PUBLISH is sent of which B01 looks at a topic.
fn has_topic(sharing: bool, topics: &IndexMap<u16, Text>, note: &Note) -> bool
    ensures { result ≡ delivers_so note.now sharing (get nat_eq topics.now) (λ p topic. true) }
{
    match note.sent_publish() {
        Some(publish) => match judged_topic(publish, sharing, topics) {
            Some(_) => true,
            None => false,
        },
        None => false,
    }
}

// Whether a PUBLISH of QoS above 0 is sent of which B02 looks at a topic.
fn has_acknowledged_topic(sharing: bool, topics: &IndexMap<u16, Text>, note: &Note) -> bool
    ensures { result ≡ delivers_so note.now sharing (get nat_eq topics.now) (λ p topic. waits p.qos) }
{
    match note.sent_publish() {
        Some(publish) => match judged_topic(publish, sharing, topics) {
            Some(_) => is_acknowledged(publish.qos),
            None => false,
        },
        None => false,
    }
}

// Whether a bare packet is a PUBLISH that is sent, and of which B01 looks at the
// topic: its Topic Name, since it has no Topic Alias.
#[inline(always)]
#[tactic(auto, unfolding(mq_rules::specs::Notes::note_of_bare))]
fn names_topic(sharing: bool, bare: Bare<'_>) -> bool
    ensures { (topics : ℕ → Option (List ℕ)) → result ≡ delivers_so (note_of_bare bare.entry) sharing topics (λ p topic. true) }
{
    match delivery_of(bare) {
        Some(delivery) => named_topic(true, sharing, delivery).is_some(),
        None => false,
    }
}

// The same of B02, which looks at those of QoS above 0.
#[inline(always)]
fn names_acknowledged(sharing: bool, bare: Bare<'_>) -> bool
    ensures { (topics : ℕ → Option (List ℕ)) → result ≡ delivers_so (note_of_bare bare.entry) sharing topics (λ p topic. waits p.qos) }
{
    match delivery_of(bare) {
        Some(delivery) => named_topic(true, sharing, delivery).is_some()
            && is_acknowledged(delivery.qos),
        None => false,
    }
}

// Whether an event is a PUBLISH that is sent and of which B01 looks at a topic.
#[inline(always)]
fn delivers_topic(sharing: bool, topics: &IndexMap<u16, Text>, event: NoteRef<'_>) -> bool
    ensures { result ≡ delivers_so (note_in event.entry) sharing (get nat_eq topics.now) (λ p topic. true) }
{
    match event {
        NoteRef::Kept(note) => has_topic(sharing, topics, note),
        NoteRef::Bare(bare) => names_topic(sharing, bare),
    }
}

// The same of B02.
#[inline(always)]
fn delivers_acknowledged(sharing: bool, topics: &IndexMap<u16, Text>, event: NoteRef<'_>) -> bool
    ensures { result ≡ delivers_so (note_in event.entry) sharing (get nat_eq topics.now) (λ p topic. waits p.qos) }
{
    match event {
        NoteRef::Kept(note) => has_acknowledged_topic(sharing, topics, note),
        NoteRef::Bare(bare) => names_acknowledged(sharing, bare),
    }
}

impl Deliveries {
    // Whether deliveries are judged, and the event puts B01 to the test.
    #[inline(always)]
    fn is_delivered(&self, fate: Fate, event: NoteRef<'_>) -> bool
        ensures { result ≡ (self.now.bound && (accepts fate && delivers_so (note_in event.entry) self.now.sharing (get nat_eq self.now.topics) (λ p topic. true))) }
    {
        self.bound && (fate.accepts() && delivers_topic(self.sharing, &self.topics, event))
    }

    // The same of B02.
    #[inline(always)]
    fn is_granted(&self, fate: Fate, event: NoteRef<'_>) -> bool
        ensures { result ≡ (self.now.bound && (accepts fate && delivers_so (note_in event.entry) self.now.sharing (get nat_eq self.now.topics) (λ p topic. waits p.qos))) }
    {
        self.bound && (fate.accepts() && delivers_acknowledged(self.sharing, &self.topics, event))
    }
}

impl Asks for Deliveries {
    type Places = DeliveryPlaces;

    ghost counted = { ⟦<Deliveries as Fated>⟧.judges };

    ghost counts = { λ n tested taken past. (n.delivered ≡ places_under tested taken past B01) × (n.acknowledged ≡ places_under tested taken past B02) };

    fn tests(rule: Rule) -> bool {
        rule == Rule::B01 || rule == Rule::B02
    }

    fn no_places() -> DeliveryPlaces {
        DeliveryPlaces {
            delivered: 0,
            acknowledged: 0,
        }
    }

    #[inline(always)]
    fn count<E: Taken>(
        &self,
        places: &mut DeliveryPlaces,
        at: Place3,
        _: u32,
        fate: Fate,
        event: &E,
    ) {
        let event = event.as_ref();
        let delivered = self.is_delivered(fate, event);
        let granted = self.is_granted(fate, event);
        places.delivered = places_after(delivered, places.delivered, at.position);
        places.acknowledged = places_after(granted, places.acknowledged, at.position);
    }

    fn places_of(places: &DeliveryPlaces, rule: Rule) -> u32 {
        pick(rule == Rule::B01, places.delivered, places.acknowledged)
    }

    ghost on_sessions = { λ role rule judged. on_either (same_rule rule B01) (same_rule rule B02) (is_on_sessions (occasion role rule)) (on_one role B01 rule refl) (on_one role B02 rule refl) judged };
}

impl Discerning for Deliveries {
    fn leaves_out(&self) {}
}
