//! What a SUBACK grants (MQTT 5.0, section 3.9.3).
ghost use Rattle.std.specs.Prelude.{refl};
ghost use Rattle.std.specs.Prelude.{◌≡◌, ◌&&◌, ◌||◌, nat_eq, nat_le, ◌∷◌, ℕ, List, [], Some, None, true, false, cond, length, not, OnOk, OnErr, IfOk};
ghost use Rattle.std.specs.List.{sum_by};
ghost use Rattle.std.specs.Option.{option_or};
ghost use Rattle.indexmap.specs.IndexMap.{get, IsUnique};
ghost use Rattle.mq_rules.specs.declared.rule.Rule.TheVariants.{B05};
ghost use Rattle.mq_rules.specs.declared.fate.Fate.TheVariants.{Void};
ghost use Rattle.mq_rules.specs.declared.role.Tested.{Tested as TheTested};
ghost use Rattle.mq_rules.specs.declared.fate.Fate.{Fate as TheFate};
ghost use Rattle.mq_rules.specs.declared.note.Seen.{Seen};
ghost use Rattle.mq_rules.specs.Notes.{note_in, sent_grant};
ghost use Rattle.mq_rules.specs.Connections.{accepts};
ghost use Rattle.mq_rules.specs.Subscriptions.{requested_each, some_granted as granted};
ghost use Rattle.mq_rules.specs.Rules.{same_rule, binds as is_bound};
ghost use Rattle.mq_rules.specs.Occasions.{places_under};
ghost use Rattle.mq_rules.specs.Under.{seen, IsUnder, fate_before, turns_with};
ghost use Rattle.mq_rules.specs.Growing.{Gains, GainsWithin};
ghost use Rattle.mq_rules.specs.Weights.{in_word};
ghost use Rattle.mq_subscriptions.specs.Burden.{at_least_one, asked_filters};
ghost use Rattle.mq_subscriptions.specs.Concerns.{concerns_count, concerns_grants};
ghost use Rattle.mq_subscriptions.specs.Countings.{subscribes};
ghost use Rattle.mq_subscriptions.specs.Grantings.{asks_under, asked_in, asked_next, grants_under, granted_as, grants_kept, AreAsked};
ghost use Rattle.mq_fates.specs.Placings.{on_one};
ghost use Rattle.mq_subscriptions.specs.Weights.{grants_weigh};

use crate::awaited::REFUSING;
use indexmap::IndexMap;
use mq_fates::{Asks, Discerning, Fated, Selective, Taken, judge_by};
use mq_log::Place3;
use mq_rules::{
    Fate, Faults, Memory, Note, NoteRef, Noted, NotedFilter, PacketFields, Rule, Tested,
    places_after,
};
use std::alloc::Global;
use std::marker::Model;

// ---- what a SUBSCRIBE asks for

/// The Maximum QoS that each filter of a SUBSCRIBE asks for. Most have one filter, for which no
/// memory is taken.
#[derive(Drop)]
struct Requested {
    first: Option<u8>,
    others: Vec<u8>,
}

impl Model for Requested {
    ghost use Rattle.std.specs.Prelude.{ℕ, List};
    ghost use Rattle.mq_subscriptions.specs.Grantings.{all_of};

    ghost Value = { List ℕ };

    ghost view = { λ w. all_of w.first w.others.items };
}

// What these filters ask for.
fn qos_of(alloc: Global, filters: &[NotedFilter]) -> Result<Vec<u8>, Memory>
    ensures { IfOk result (λ all. all.items ≡ requested_each filters.now) }
{
    let mut all = Vec::new(alloc);
    let mut filters = filters;
    while let Some((filter, next_filters)) = filters.split_first() {
        all.push(filter.options % 4)?;
        filters = next_filters;
    }
    Ok(all)
}

// Whether something is granted by a Reason Code: anything at all, or more than was asked for.
fn is_granted(above: bool, qos: u8, code: u8) -> bool
    ensures { result ≡ (not (nat_le 128 code) && granted_as above qos code) }
{
    code < REFUSING && (!above || qos < code)
}

// Whether something is granted of this, each by the Reason Code at its place.
fn any_granted(above: bool, asked: &[u8], codes: &[u8]) -> bool
    ensures { result ≡ granted (granted_as above) asked.now codes.now }
{
    let mut asked = asked;
    let mut codes = codes;
    while let Some((qos, next_asked)) = asked.split_first() {
        let Some((code, next_codes)) = codes.split_first() else {
            return false;
        };
        if is_granted(above, *qos, *code) {
            return true;
        }
        asked = next_asked;
        codes = next_codes;
    }
    false
}

impl Requested {
    // What these filters ask for.
    fn of(alloc: Global, filters: &[NotedFilter]) -> Result<Requested, Memory>
        ensures { IfOk result (λ wanted. wanted ≡ requested_each filters.now) }
    {
        match filters.split_first() {
            None => Ok(Requested {
                first: None,
                others: Vec::new(alloc),
            }),
            Some((filter, next_filters)) => {
                let others = qos_of(alloc, next_filters)?;
                Ok(Requested {
                    first: Some(filter.options % 4),
                    others,
                })
            }
        }
    }

    // Whether these Reason Codes grant some of it: anything at all, or more than was asked for.
    fn is_granted(&self, above: bool, codes: &[u8]) -> bool
        ensures { result ≡ granted (granted_as above) self.now codes.now }
    {
        let Some(qos) = self.first else {
            return false;
        };
        let Some((code, next_codes)) = codes.split_first() else {
            return false;
        };
        is_granted(above, qos, *code) || any_granted(above, self.others.as_slice(), next_codes)
    }

    // How much it counts: the entry in which it is, and the filters after the first.
    fn size(&self) -> usize
        ensures { result ≡ in_word (at_least_one (length self.now)) }
    {
        match self.first {
            Some(_) => self.others.len().saturating_add(1),
            None => 1,
        }
    }
}

// ---- by their identifiers

// Takes in a SUBACK: what it answers waits no more.
fn take_answer(wanted: &mut IndexMap<u16, Requested>, note: &Note)
    ensures { (i : ℕ) → get nat_eq wanted.new i ≡ cond (grants_under i note.now) None (get nat_eq wanted.old i) }
{
    if let Some(PacketFields::Suback { identifier, .. }) = note.sent_fields() {
        wanted.swap_remove(identifier);
    }
}

// Takes in a SUBSCRIBE, unless one under its identifier waits already.
fn take_request(
    wanted: &mut IndexMap<u16, Requested>,
    alloc: Global,
    note: &Note,
) -> Result<(), Memory>
    ensures { OnOk result ((i : ℕ) → get nat_eq wanted.new i ≡ option_or (get nat_eq wanted.old i) (cond (asks_under i note.now) (asked_in note.now) None)) }
{
    if let Some(
        PacketFields::Subscribe {
            identifier,
            filters,
            ..
        },
    ) = note.received_fields()
    {
        if !wanted.contains_key(identifier) {
            let asked = Requested::of(alloc, filters.as_slice())?;
            wanted.insert(*identifier, asked)?;
        }
    }
    Ok(())
}

// Takes in an event. All are forgotten where a connection begins and where it ends, since a packet
// is answered on its own connection.
fn take(wanted: &mut IndexMap<u16, Requested>, alloc: Global, note: &Note) -> Result<(), Memory>
    ensures { OnOk result ((i : ℕ) → get nat_eq wanted.new i ≡ asked_next note.now i (get nat_eq wanted.old i)) }
{
    if note.is_boundary() {
        *wanted = IndexMap::new(alloc);
    }
    take_answer(wanted, note);
    take_request(wanted, alloc, note)?;
    Ok(())
}

// Takes in an event, if the statement is judged.
fn take_bound(
    bound: bool,
    wanted: &mut IndexMap<u16, Requested>,
    alloc: Global,
    note: &Note,
) -> Result<(), Memory>
    ensures taken { OnOk result (bound ≡ true → (i : ℕ) → get nat_eq wanted.new i ≡ asked_next note.now i (get nat_eq wanted.old i)) }
    ensures left { OnOk result (bound ≡ false → (i : ℕ) → get nat_eq wanted.new i ≡ get nat_eq wanted.old i) }
{
    if !bound {
        return Ok(());
    }
    take(wanted, alloc, note)
}

// Whether a SUBACK grants something of the SUBSCRIBE that it answers: anything at all, or more than
// was asked for.
fn grants_some(above: bool, wanted: &IndexMap<u16, Requested>, note: &Note) -> bool
    ensures { result ≡ grants_kept (granted_as above) (get nat_eq wanted.now) (sent_grant note.now) }
{
    let Some(PacketFields::Suback { identifier, codes }) = note.sent_fields() else {
        return false;
    };
    match wanted.get(identifier) {
        Some(asked) => asked.is_granted(above, codes.as_slice()),
        None => false,
    }
}

// How much all that is kept counts.
fn sizes_of(wanted: &IndexMap<u16, Requested>) -> usize
    ensures size { result ≡ in_word (sum_by (λ e. at_least_one (length e.1)) wanted.now.entries) }
    ensures unique { IsUnique nat_eq wanted.now }
{
    let mut size = 0_usize;
    for (_identifier, asked) in wanted.iter() {
        size = size.saturating_add(asked.size());
    }
    size
}

// Whether a connection begins or ends, a SUBSCRIBE is received or a SUBACK is sent.
fn asks_or_grants(note: &Note) -> bool
    ensures { result ≡ concerns_count subscribes note.now }
{
    note.is_boundary()
        || matches!(note.received_fields(), Some(PacketFields::Subscribe { .. }))
        || matches!(note.sent_fields(), Some(PacketFields::Suback { .. }))
}

// The same of any event: a bare packet is none of these.
#[inline(always)]
fn is_about_filters(event: NoteRef<'_>) -> bool
    ensures { result ≡ concerns_count subscribes (note_in event.entry) }
{
    match event {
        NoteRef::Kept(note) => asks_or_grants(note),
        NoteRef::Bare(_) => false,
    }
}

// ---- the watcher

/// Watches B05. It keeps nothing unless that is judged.
#[derive(Drop)]
pub struct Grants {
    alloc: Global,
    bound: bool,
    /// What the first SUBSCRIBE of each identifier asks for that isn't answered.
    wanted: IndexMap<u16, Requested>,
}

impl Grants {
    /// Nothing waits for an answer.
    pub fn new(alloc: Global, tested: Tested) -> Self
        ensures { ⟦<Grants as Fated>⟧.agrees result tested (Some Void) [] }
    {
        Grants {
            alloc,
            bound: Rule::B05.is_judged(tested),
            wanted: IndexMap::new(alloc),
        }
    }

    // Whether the statement is judged, and an event of a connection that is accepted grants
    // something: anything at all, or more than was asked for.
    fn finds(&self, above: bool, fate: Fate, note: &Note) -> bool
        ensures { result ≡ (self.now.bound && (accepts fate && grants_kept (granted_as above) (get nat_eq self.now.wanted) (sent_grant note.now))) }
    {
        self.bound && (fate.accepts() && grants_some(above, &self.wanted, note))
    }

    // The same of any event: a bare packet is no SUBACK.
    #[inline(always)]
    #[tactic(auto, unfolding(mq_rules::specs::Notes::note_of_bare))]
    fn is_place(&self, fate: Fate, event: NoteRef<'_>) -> bool
        ensures { result ≡ (self.now.bound && (accepts fate && grants_kept (granted_as false) (get nat_eq self.now.wanted) (sent_grant (note_in event.entry)))) }
    {
        match event {
            NoteRef::Kept(note) => self.finds(false, fate, note),
            NoteRef::Bare(_) => false,
        }
    }

    // Whether the statement is judged, and an event may have to do with it.
    #[inline(always)]
    fn may_take(&self, event: NoteRef<'_>) -> bool
        ensures { result ≡ (self.now.bound && concerns_count subscribes (note_in event.entry)) }
    {
        self.bound && is_about_filters(event)
    }

    // Takes in an event that isn't bare.
    fn take_noted(
        &mut self,
        at: Place3,
        decided: u32,
        fate: Fate,
        note: &Note,
        faults: &mut Faults,
    ) -> Result<(), Memory>
        ensures agrees { OnOk result ((tested : TheTested) (past : List Seen) → IsUnder tested fate decided (seen at note.now) past → ⟦<Grants as Fated>⟧.agrees self.old tested (fate_before tested fate (seen at note.now) past) past → ⟦<Grants as Fated>⟧.agrees self.new tested (Some fate) (seen at note.now ∷ past)) }
        ensures grows { OnOk result ((tested : TheTested) (past : List Seen) → IsUnder tested fate decided (seen at note.now) past → ⟦<Grants as Fated>⟧.agrees self.old tested (fate_before tested fate (seen at note.now) past) past → Gains (λ k r. ⟦<Grants as Fated>⟧.judges r && turns_with tested fate (seen at note.now) past k r) tested (seen at note.now ∷ past) decided faults.old faults.new) }
        ensures memory { OnErr result ((tested : TheTested) (past : List Seen) → IsUnder tested fate decided (seen at note.now) past → ⟦<Grants as Fated>⟧.agrees self.old tested (fate_before tested fate (seen at note.now) past) past → GainsWithin (λ k r. ⟦<Grants as Fated>⟧.judges r && turns_with tested fate (seen at note.now) past k r) tested (seen at note.now ∷ past) decided faults.old faults.new) }
    {
        let broken = self.finds(true, fate, note);
        take_bound(self.bound, &mut self.wanted, self.alloc, note)?;
        judge_by(Rule::B05, broken, at, decided, faults)?;
        Ok(())
    }
}

impl Grants {
    // Takes in any event: a bare packet leaves all as it is.
    fn take_event(
        &mut self,
        at: Place3,
        decided: u32,
        fate: Fate,
        event: NoteRef<'_>,
        faults: &mut Faults,
    ) -> Result<(), Memory>
        ensures agrees { OnOk result ((tested : TheTested) (past : List Seen) → IsUnder tested fate decided (seen at (note_in event.entry)) past → ⟦<Grants as Fated>⟧.agrees self.old tested (fate_before tested fate (seen at (note_in event.entry)) past) past → ⟦<Grants as Fated>⟧.agrees self.new tested (Some fate) (seen at (note_in event.entry) ∷ past)) }
        ensures grows { OnOk result ((tested : TheTested) (past : List Seen) → IsUnder tested fate decided (seen at (note_in event.entry)) past → ⟦<Grants as Fated>⟧.agrees self.old tested (fate_before tested fate (seen at (note_in event.entry)) past) past → Gains (λ k r. ⟦<Grants as Fated>⟧.judges r && turns_with tested fate (seen at (note_in event.entry)) past k r) tested (seen at (note_in event.entry) ∷ past) decided faults.old faults.new) }
        ensures memory { OnErr result ((tested : TheTested) (past : List Seen) → IsUnder tested fate decided (seen at (note_in event.entry)) past → ⟦<Grants as Fated>⟧.agrees self.old tested (fate_before tested fate (seen at (note_in event.entry)) past) past → GainsWithin (λ k r. ⟦<Grants as Fated>⟧.judges r && turns_with tested fate (seen at (note_in event.entry)) past k r) tested (seen at (note_in event.entry) ∷ past) decided faults.old faults.new) }
    {
        match event {
            NoteRef::Kept(note) => self.take_noted(at, decided, fate, note, faults),
            NoteRef::Bare(_) => {
                self.passes();
                Ok(())
            }
        }
    }
}

impl Fated for Grants {
    ghost agrees = { λ s tested taken past. (s.bound ≡ is_bound B05 tested) × AreAsked s.bound (get nat_eq s.wanted) past };

    ghost judges = { λ r. same_rule r B05 };

    ghost weighs = { grants_weigh };

    ghost bound = { λ tested taken past. asked_filters past };

    fn fated<E: Taken>(
        &mut self,
        at: Place3,
        decided: u32,
        fate: Fate,
        event: &E,
        faults: &mut Faults,
    ) -> Result<(), Memory> {
        let event = event.as_ref();
        self.take_event(at, decided, fate, event, faults)
    }

    // The one map of the struct, and what is in it.
    fn weight(&self) -> usize {
        sizes_of(&self.wanted)
    }
}

impl Selective for Grants {
    ghost concerns = { concerns_grants };

    fn passes(&self) {}

    #[inline(always)]
    fn may_concern<E: Taken>(&self, event: &E) -> bool {
        self.may_take(event.as_ref())
    }
}

impl Asks for Grants {
    type Places = u32;

    ghost counted = { ⟦<Grants as Fated>⟧.judges };

    ghost counts = { λ n tested taken past. n ≡ places_under tested taken past B05 };

    ghost on_sessions = { λ role rule judged. on_one role B05 rule refl judged };

    fn tests(rule: Rule) -> bool {
        rule == Rule::B05
    }

    fn no_places() -> u32 {
        0
    }

    #[inline(always)]
    fn count<E: Taken>(&self, places: &mut u32, at: Place3, _: u32, fate: Fate, event: &E) {
        let here = self.is_place(fate, event.as_ref());
        *places = places_after(here, *places, at.position);
    }

    fn places_of(places: &u32, _: Rule) -> u32 {
        *places
    }
}

impl Discerning for Grants {
    fn leaves_out(&self) {}
}
