//! What a server may deliver: topics that were subscribed to, at no more than the QoS that was
//! granted (MQTT 5.0, sections 3.3.1.2, 3.8.4 and 4.7).
ghost use Rattle.std.specs.Prelude.{refl};
ghost use Rattle.std.specs.Prelude.{◌≡◌, ◌∷◌, ◌+◌, ◌*◌, ◌&&◌, ◌||◌, ◌==◌, nat_le, ℕ, false, not, List, Option, OnOk, OnErr, IfOk, IfSome, nat_eq, [], Some, length, option_map, is_none, is_some};
ghost use Rattle.std.specs.List.{list_any};
ghost use Rattle.std.specs.Option.{option_or};
ghost use Rattle.indexmap.specs.IndexMap.{get};
ghost use Rattle.mq_rules.specs.declared.role.Tested.{Tested as TheTested};
ghost use Rattle.mq_rules.specs.declared.fate.Fate.{Fate as TheFate};
ghost use Rattle.mq_rules.specs.declared.fate.Fate.TheVariants.{Void};
ghost use Rattle.mq_rules.specs.declared.note.Note.{Note as TheNote};
ghost use Rattle.mq_rules.specs.declared.note.Seen.{Seen};
ghost use Rattle.mq_rules.specs.declared.rule.Rule.TheVariants.{B01, B02};
ghost use Rattle.mq_rules.specs.Words.{is_some_and, is_id, only};
ghost use Rattle.mq_rules.specs.Notes.{received_subscription, qos_number as number_of, subscription_in, kept_topic, note_of_bare, sent_publish};
ghost use Rattle.mq_rules.specs.Connections.{accepts, latest_fate};
ghost use Rattle.mq_rules.specs.Subscriptions.{is_shared as begins_shared};
ghost use Rattle.mq_rules.specs.Rules.{same_rule, binds as is_bound};
ghost use Rattle.mq_rules.specs.Under.{seen, Follows, IsKnown, IsUnder, fate_before, turns_known, turns_with};
ghost use Rattle.mq_rules.specs.Growing.{Gains, GainsWithin};
ghost use Rattle.mq_filters.specs.Standings.{has_ceiling};
ghost use Rattle.mq_subscriptions.specs.Burden.{standing_count, asked_filters, aliased_ids};
ghost use Rattle.mq_subscriptions.specs.Weights.{deliveries_weigh};
ghost use Rattle.mq_subscriptions.specs.Standings.{sharing_next, IsStanding, delivers_so, judged_topic as topic_judged, named_topic as topic_named, IsDelivery, is_unasked as unasked, is_above as above, said_by};
ghost use Rattle.mq_subscriptions.specs.Concerns.{concerns_deliveries};

mod asking;

use crate::filters::{Filters, goes_on};
use crate::topics::{take_topic, topic_of};
pub use asking::DeliveryPlaces;
use indexmap::IndexMap;
use mq_fates::{Fated, Selective, Taken, judge_by, map_size};
use mq_filters::is_within;
use mq_log::{Direction, Place3};
use mq_packet::Qos;
use mq_rules::{
    Bare, BareFields, Fate, Faults, Memory, Note, NoteRef, Noted, NotedFilter, PacketFields,
    PublishNote, Rule, Tested, Text, qos_number,
};
use std::alloc::Global;

// ---- shared subscriptions

// Whether a filter asks for a shared subscription (MQTT 5.0, section 4.8.2).
fn is_shared(filter: &NotedFilter) -> bool
    ensures { result ≡ begins_shared filter.now }
{
    filter.filter.as_str().starts_with("$share/")
}

// Whether one of the filters asks for a shared subscription.
fn any_shared(filters: &[NotedFilter]) -> bool
    ensures { result ≡ list_any begins_shared filters.now }
{
    filters.iter().any(|filter| is_shared(filter))
}

// Whether a SUBSCRIBE asks for a shared subscription.
fn has_shared(fields: &PacketFields) -> bool
    ensures { result ≡ is_some_and (λ s. list_any begins_shared s.filters) (subscription_in fields.now) }
{
    match fields {
        PacketFields::Subscribe { filters, .. } => any_shared(filters.as_slice()),
        _ => false,
    }
}

/// Whether an event is a SUBSCRIBE that is received and asks for a shared subscription (MQTT 5.0,
/// section 4.8.2).
pub fn asks_for_shared(note: &Note) -> bool
    ensures { result ≡ is_some_and (λ s. list_any begins_shared s.filters) (received_subscription note.now) }
{
    match note.received_fields() {
        Some(fields) => has_shared(fields),
        None => false,
    }
}

/// Whether the session has asked for a shared subscription after an event.
pub fn shares(fate: Fate, note: &Note, old: bool) -> bool
    ensures { result ≡ sharing_next fate note.now old }
{
    (fate.accepts() && asks_for_shared(note)) || (goes_on(fate, note) && old)
}

// ---- topics

// The topic of a PUBLISH, if B01 and B02 look at it.
fn judged_topic<'a>(
    publish: &'a PublishNote,
    sharing: bool,
    topics: &'a IndexMap<u16, Text>,
) -> Option<&'a str>
    ensures { option_map (λ topic. topic.now) result ≡ topic_judged sharing (get nat_eq topics.now) publish.now }
{
    if publish.duplicate {
        return None;
    }
    if sharing {
        return None;
    }
    topic_of(publish, topics)
}

// ---- deliveries

// Which of B01 and B02 an event breaks.
#[derive(Clone, Copy)]
struct Broken {
    unasked: bool,
    above: bool,
}

const NOTHING_BROKEN: Broken = Broken {
    unasked: false,
    above: false,
};

// What a delivery with this QoS breaks, by the greatest ceiling of the filters that match its
// topic.
fn broken_by(ceiling: Option<u8>, qos: Qos) -> Broken
    ensures unasked { result.unasked ≡ is_none ceiling }
    ensures above { result.above ≡ (is_some ceiling && not (has_ceiling (nat_le (number_of qos)) ceiling)) }
{
    Broken {
        unasked: ceiling.is_none(),
        above: ceiling.is_some() && !is_within(ceiling, qos_number(qos)),
    }
}

// What a PUBLISH that is sent with this QoS breaks, if B01 and B02 look at a topic of it.
fn judge(
    alloc: Global,
    filters: &mut Filters,
    topic: Option<&str>,
    qos: Qos,
) -> Result<Broken, Memory>
    ensures unchanged { said_by filters.new ≡ said_by filters.old }
    ensures unasked { IfOk result (λ broken. broken.unasked ≡ is_some_and (unasked filters.old.settled filters.old.waiting) (option_map (λ topic. topic.now) topic.entry)) }
    ensures above { IfOk result (λ broken. broken.above ≡ is_some_and (above filters.old.settled filters.old.waiting qos) (option_map (λ topic. topic.now) topic.entry)) }
{
    match topic {
        Some(topic) => {
            let ceiling = filters.ceiling_for(alloc, topic)?;
            Ok(broken_by(ceiling, qos))
        }
        None => Ok(NOTHING_BROKEN),
    }
}

// Whether events of a connection that has this fate are judged.
fn is_judged(bound: bool, fate: Fate) -> bool
    ensures { result ≡ (bound && accepts fate) }
{
    bound && fate.accepts()
}

// What an event breaks.
fn judge_event(
    alloc: Global,
    filters: &mut Filters,
    sharing: bool,
    topics: &IndexMap<u16, Text>,
    binds: bool,
    note: &Note,
) -> Result<Broken, Memory>
    ensures unchanged { said_by filters.new ≡ said_by filters.old }
    ensures unasked { IfOk result (λ broken. broken.unasked ≡ (binds && delivers_so note.now sharing (get nat_eq topics.now) (λ p. unasked filters.old.settled filters.old.waiting))) }
    ensures above { IfOk result (λ broken. broken.above ≡ (binds && delivers_so note.now sharing (get nat_eq topics.now) (λ p. above filters.old.settled filters.old.waiting p.qos))) }
{
    if !binds {
        return Ok(NOTHING_BROKEN);
    }
    match note.sent_publish() {
        Some(publish) => {
            let topic = judged_topic(publish, sharing, topics);
            judge(alloc, filters, topic, publish.qos)
        }
        None => Ok(NOTHING_BROKEN),
    }
}

// ---- bare deliveries

// A PUBLISH that is sent without a Topic Alias.
#[derive(Clone, Copy)]
struct Delivery<'a> {
    topic: &'a str,
    qos: Qos,
    duplicate: bool,
}

// The Topic Name of a PUBLISH as its note has it.
#[inline(always)]
fn noted_topic<'a>(topic: &'a str) -> &'a str
    ensures { result.now ≡ kept_topic topic.now }
{
    if Text::is_short(topic) { topic } else { "" }
}

// What a bare packet delivers, if it is a PUBLISH that is sent.
#[inline(always)]
#[tactic(auto, unfolding(mq_rules::specs::Notes::note_of_bare))]
fn delivery_of<'a>(bare: Bare<'a>) -> Option<Delivery<'a>>
    ensures some { IfSome result (λ delivery. IsDelivery (note_of_bare bare.entry) delivery.topic.now delivery.qos delivery.duplicate) }
    ensures none { is_some result ≡ false → (tested : TheTested) → concerns_deliveries tested (note_of_bare bare.entry) ≡ false }
    ensures sent { is_some result ≡ is_some (sent_publish (note_of_bare bare.entry)) }
{
    match bare.direction {
        Direction::Sent => match bare.fields {
            BareFields::Publish {
                qos,
                duplicate,
                topic,
                ..
            } => Some(Delivery {
                topic: noted_topic(topic),
                qos,
                duplicate,
            }),
            BareFields::Puback { .. }
            | BareFields::Pubrec { .. }
            | BareFields::Pubrel { .. }
            | BareFields::Pubcomp { .. }
            | BareFields::Pingreq
            | BareFields::Pingresp => None,
        },
        Direction::Recv => None,
    }
}

// Its topic, if it is judged, and B01 and B02 look at it.
fn named_topic<'a>(judged: bool, sharing: bool, delivery: Delivery<'a>) -> Option<&'a str>
    ensures { option_map (λ topic. topic.now) result ≡ only judged (topic_named sharing delivery.entry.duplicate delivery.entry.topic.now) }
{
    if !judged {
        return None;
    }
    if delivery.duplicate {
        return None;
    }
    if sharing {
        return None;
    }
    if delivery.topic.is_empty() {
        return None;
    }
    Some(delivery.topic)
}

/// Watches B01 and B02.
#[derive(Drop)]
pub struct Deliveries {
    alloc: Global,
    bound: bool,
    fate: Fate,
    filters: Filters,
    sharing: bool,
    topics: IndexMap<u16, Text>,
}

impl Deliveries {
    /// No filter stands.
    pub fn new(alloc: Global, tested: Tested) -> Self
        ensures { ⟦<Deliveries as Fated>⟧.agrees result tested (Some Void) [] }
    {
        Deliveries {
            alloc,
            bound: Rule::B01.is_judged(tested),
            fate: Fate::Void,
            filters: Filters::new(alloc),
            sharing: false,
            topics: IndexMap::new(alloc),
        }
    }

    /// Whether deliveries are judged.
    #[inline(always)]
    pub fn is_bound(&self) -> bool
        ensures { result ≡ self.now.bound }
    {
        self.bound
    }
}

impl Fated for Deliveries {
    ghost agrees = { λ s tested taken past. (s.bound ≡ is_bound B01 tested) × IsStanding s.fate s.filters.settled s.filters.waiting s.sharing (get nat_eq s.topics) tested taken past };

    ghost judges = { λ r. same_rule r B01 || same_rule r B02 };

    ghost weighs = { deliveries_weigh };

    ghost bound = { λ tested taken past. 3 * standing_count tested.role taken past + 2 * asked_filters past + aliased_ids past };

    #[inline(always)]
    fn fated<E: Taken>(
        &mut self,
        at: Place3,
        decided: u32,
        fate: Fate,
        event: &E,
        faults: &mut Faults,
    ) -> Result<(), Memory> {
        match event.as_ref() {
            NoteRef::Kept(note) => self.take_noted(at, decided, fate, note, faults),
            NoteRef::Bare(bare) => {
                if decided == at.position {
                    self.take_bare(at, bare, faults)?;
                    return Ok(());
                }
                self.take_late(at, decided, fate, bare, faults)
            }
        }
    }

    // Both maps of the struct, and all that is kept of filters.
    fn weight(&self) -> usize {
        self.filters.size().saturating_add(map_size(&self.topics))
    }
}

impl Deliveries {
    // Takes in an event by its note.
    fn take_noted(
        &mut self,
        at: Place3,
        decided: u32,
        fate: Fate,
        note: &Note,
        faults: &mut Faults,
    ) -> Result<(), Memory>
        ensures agrees { OnOk result ((tested : TheTested) (past : List Seen) → IsUnder tested fate decided (seen at note.now) past → ⟦<Deliveries as Fated>⟧.agrees self.old tested (fate_before tested fate (seen at note.now) past) past → ⟦<Deliveries as Fated>⟧.agrees self.new tested (Some fate) (seen at note.now ∷ past)) }
        ensures grows { OnOk result ((tested : TheTested) (past : List Seen) → IsUnder tested fate decided (seen at note.now) past → ⟦<Deliveries as Fated>⟧.agrees self.old tested (fate_before tested fate (seen at note.now) past) past → Gains (λ k r. ⟦<Deliveries as Fated>⟧.judges r && turns_with tested fate (seen at note.now) past k r) tested (seen at note.now ∷ past) decided faults.old faults.new) }
        ensures memory { OnErr result ((tested : TheTested) (past : List Seen) → IsUnder tested fate decided (seen at note.now) past → ⟦<Deliveries as Fated>⟧.agrees self.old tested (fate_before tested fate (seen at note.now) past) past → GainsWithin (λ k r. ⟦<Deliveries as Fated>⟧.judges r && turns_with tested fate (seen at note.now) past k r) tested (seen at note.now ∷ past) decided faults.old faults.new) }
    {
        let alloc = self.alloc;
        let binds = is_judged(self.bound, fate);
        let broken = judge_event(
            alloc,
            &mut self.filters,
            self.sharing,
            &self.topics,
            binds,
            note,
        )?;
        self.filters.take_in(alloc, fate, note)?;
        take_topic(alloc, &mut self.topics, note)?;
        self.sharing = shares(fate, note, self.sharing);
        self.fate = fate;
        judge_by(Rule::B01, broken.unasked, at, decided, faults)?;
        judge_by(Rule::B02, broken.above, at, decided, faults)?;
        Ok(())
    }

    // Takes in a bare packet that was held, by a note. None is held in this form.
    #[inline(never)]
    fn take_late(
        &mut self,
        at: Place3,
        decided: u32,
        fate: Fate,
        bare: Bare<'_>,
        faults: &mut Faults,
    ) -> Result<(), Memory>
        ensures agrees { OnOk result ((tested : TheTested) (past : List Seen) → IsUnder tested fate decided (seen at (note_of_bare bare.entry)) past → ⟦<Deliveries as Fated>⟧.agrees self.old tested (fate_before tested fate (seen at (note_of_bare bare.entry)) past) past → ⟦<Deliveries as Fated>⟧.agrees self.new tested (Some fate) (seen at (note_of_bare bare.entry) ∷ past)) }
        ensures grows { OnOk result ((tested : TheTested) (past : List Seen) → IsUnder tested fate decided (seen at (note_of_bare bare.entry)) past → ⟦<Deliveries as Fated>⟧.agrees self.old tested (fate_before tested fate (seen at (note_of_bare bare.entry)) past) past → Gains (λ k r. ⟦<Deliveries as Fated>⟧.judges r && turns_with tested fate (seen at (note_of_bare bare.entry)) past k r) tested (seen at (note_of_bare bare.entry) ∷ past) decided faults.old faults.new) }
        ensures memory { OnErr result ((tested : TheTested) (past : List Seen) → IsUnder tested fate decided (seen at (note_of_bare bare.entry)) past → ⟦<Deliveries as Fated>⟧.agrees self.old tested (fate_before tested fate (seen at (note_of_bare bare.entry)) past) past → GainsWithin (λ k r. ⟦<Deliveries as Fated>⟧.judges r && turns_with tested fate (seen at (note_of_bare bare.entry)) past k r) tested (seen at (note_of_bare bare.entry) ∷ past) decided faults.old faults.new) }
    {
        let note = bare.note();
        self.take_noted(at, decided, fate, &note, faults)
    }
}

impl Deliveries {
    // Takes in a PUBLISH that is sent without a Topic Alias: it changes nothing that is kept.
    #[inline(never)]
    fn deliver(
        &mut self,
        at: Place3,
        delivery: Delivery<'_>,
        faults: &mut Faults,
    ) -> Result<(), Memory>
        ensures agrees { OnOk result ((n : TheNote) (tested : TheTested) (taken : Option TheFate) (past : List Seen) → IsDelivery n delivery.entry.topic.now delivery.entry.qos delivery.entry.duplicate → Follows tested (seen at n) past → IsKnown tested taken (seen at n) past → ⟦<Deliveries as Fated>⟧.agrees self.old tested taken past → ⟦<Deliveries as Fated>⟧.agrees self.new tested (latest_fate tested.role (seen at n ∷ past)) (seen at n ∷ past)) }
        ensures grows { OnOk result ((n : TheNote) (tested : TheTested) (taken : Option TheFate) (past : List Seen) → IsDelivery n delivery.entry.topic.now delivery.entry.qos delivery.entry.duplicate → Follows tested (seen at n) past → IsKnown tested taken (seen at n) past → ⟦<Deliveries as Fated>⟧.agrees self.old tested taken past → Gains (λ k r. ⟦<Deliveries as Fated>⟧.judges r && turns_known tested (seen at n) past k r) tested (seen at n ∷ past) (length past + 1) faults.old faults.new) }
        ensures memory { OnErr result ((n : TheNote) (tested : TheTested) (taken : Option TheFate) (past : List Seen) → IsDelivery n delivery.entry.topic.now delivery.entry.qos delivery.entry.duplicate → Follows tested (seen at n) past → IsKnown tested taken (seen at n) past → ⟦<Deliveries as Fated>⟧.agrees self.old tested taken past → GainsWithin (λ k r. ⟦<Deliveries as Fated>⟧.judges r && turns_known tested (seen at n) past k r) tested (seen at n ∷ past) (length past + 1) faults.old faults.new) }
    {
        let judged = is_judged(self.bound, self.fate);
        let topic = named_topic(judged, self.sharing, delivery);
        let broken = judge(self.alloc, &mut self.filters, topic, delivery.qos)?;
        judge_by(Rule::B01, broken.unasked, at, at.position, faults)?;
        judge_by(Rule::B02, broken.above, at, at.position, faults)?;
        Ok(())
    }
}

impl Deliveries {
    // Takes in a bare packet of a connection that was decided before it.
    #[inline(always)]
    fn take_bare(&mut self, at: Place3, bare: Bare<'_>, faults: &mut Faults) -> Result<(), Memory>
        ensures agrees { OnOk result ((tested : TheTested) (taken : Option TheFate) (past : List Seen) → Follows tested (seen at (note_of_bare bare.entry)) past → IsKnown tested taken (seen at (note_of_bare bare.entry)) past → ⟦<Deliveries as Fated>⟧.agrees self.old tested taken past → ⟦<Deliveries as Fated>⟧.agrees self.new tested (latest_fate tested.role (seen at (note_of_bare bare.entry) ∷ past)) (seen at (note_of_bare bare.entry) ∷ past)) }
        ensures grows { OnOk result ((tested : TheTested) (taken : Option TheFate) (past : List Seen) → Follows tested (seen at (note_of_bare bare.entry)) past → IsKnown tested taken (seen at (note_of_bare bare.entry)) past → ⟦<Deliveries as Fated>⟧.agrees self.old tested taken past → Gains (λ k r. ⟦<Deliveries as Fated>⟧.judges r && turns_known tested (seen at (note_of_bare bare.entry)) past k r) tested (seen at (note_of_bare bare.entry) ∷ past) (length past + 1) faults.old faults.new) }
        ensures memory { OnErr result ((tested : TheTested) (taken : Option TheFate) (past : List Seen) → Follows tested (seen at (note_of_bare bare.entry)) past → IsKnown tested taken (seen at (note_of_bare bare.entry)) past → ⟦<Deliveries as Fated>⟧.agrees self.old tested taken past → GainsWithin (λ k r. ⟦<Deliveries as Fated>⟧.judges r && turns_known tested (seen at (note_of_bare bare.entry)) past k r) tested (seen at (note_of_bare bare.entry) ∷ past) (length past + 1) faults.old faults.new) }
    {
        let Some(delivery) = delivery_of(bare) else {
            self.passes();
            return Ok(());
        };
        self.deliver(at, delivery, faults)?;
        Ok(())
    }
}

impl Selective for Deliveries {
    ghost concerns = { concerns_deliveries };

    fn passes(&self) {}
}
