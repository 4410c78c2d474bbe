//! What an UNSUBACK says of the subscriptions that it is asked to delete (MQTT 5.0, sections 3.10.4
//! and 3.11.3).
ghost use Rattle.std.specs.Prelude.{◌≡◌, ◌≤◌, ◌*◌, ◌&&◌, ◌||◌, ◌==◌, nat_eq, ◌∷◌, ℕ, List, [], Some, None, true, false, cond, is_some, OnOk, OnErr};
ghost use Rattle.std.specs.List.{sum_by, list_any};
ghost use Rattle.std.specs.Set.{distinct_count};
ghost use Rattle.std.specs.Option.{option_or};
ghost use Rattle.std.specs.Str.{bytes_eq};
ghost use Rattle.indexmap.specs.IndexMap.{get, get_by_text, index_map_len, IsUnique};
ghost use Rattle.mq_rules.specs.declared.rule.Rule.TheVariants.{B06, B07};
ghost use Rattle.mq_rules.specs.declared.fate.Fate.TheVariants.{Void};
ghost use Rattle.mq_rules.specs.declared.role.Tested.{Tested as TheTested};
ghost use Rattle.mq_rules.specs.declared.note.Seen.{Seen};
ghost use Rattle.mq_rules.specs.Notes.{note_in, received_unsubscription, sent_deletion};
ghost use Rattle.mq_rules.specs.Words.{only};
ghost use Rattle.mq_rules.specs.Connections.{accepts};
ghost use Rattle.mq_rules.specs.Rules.{same_rule, binds as is_bound};
ghost use Rattle.mq_rules.specs.Under.{seen, IsUnder, fate_before, turns_with};
ghost use Rattle.mq_rules.specs.Growing.{Gains, GainsWithin};
ghost use Rattle.mq_rules.specs.Weights.{in_word};
ghost use Rattle.mq_subscriptions.specs.Burden.{deletions_burden};
ghost use Rattle.mq_subscriptions.specs.Concerns.{concerns_deletions};
ghost use Rattle.mq_subscriptions.specs.Deletings as deletings;
ghost use Rattle.mq_subscriptions.specs.Deletings.{AreDeletions, TakesIn};
ghost use Rattle.mq_subscriptions.specs.Weights.{deletions_weigh};

mod asking;
mod telling;

use crate::filters::goes_on;
use crate::requested::{
    FilterState, Subscribing, remove_each, take_grant, take_request, waiting_size,
};
pub use asking::DeletionPlaces;
use indexmap::IndexMap;
use mq_fates::{Fated, Selective, Taken, judge_by};
use mq_log::Place3;
use mq_rules::{
    Fate, Faults, FilterList, Memory, Note, NoteRef, Noted, PacketFields, Rule, Tested,
};
use std::alloc::Global;
use std::marker::Model;
use telling::{denies, invents};

// ---- UNSUBSCRIBEs

/// An UNSUBSCRIBE that waits for its UNSUBACK, and whether a subscription stood to each of its
/// filters, at its first place alone.
#[derive(Drop)]
struct Removing {
    at: u32,
    filters: FilterList,
    subscribed: Vec<bool>,
}

impl Model for Removing {
    ghost use Rattle.mq_subscriptions.specs.Deletings.{Removes};

    ghost Value = { Removes };

    ghost view = { λ w. record { at = w.at; filters = w.filters; subscribed = w.subscribed.items } };
}

impl Removing {
    // Whether these Reason Codes deny a subscription to one of its filters.
    fn denies(&self, wide: bool, states: &IndexMap<String, FilterState>, codes: &[u8]) -> bool
        ensures { result ≡ deletings.denies_kept wide (get_by_text states.now) self.now codes.now }
    {
        denies(
            wide,
            states,
            self.at,
            self.filters.as_slice(),
            self.subscribed.as_slice(),
            codes,
        )
    }

    // How much it counts: the entry in which it is with the filters after the first, and what is
    // kept of each filter.
    fn size(&self) -> usize
        ensures { result ≡ in_word (deletings.removes_weigh self.now) }
    {
        self.filters
            .len()
            .max(1)
            .saturating_add(self.subscribed.len())
    }
}

// How much those that wait count together.
fn removing_size(removing: &IndexMap<u16, Removing>) -> usize
    ensures size { result ≡ in_word (sum_by (λ e. deletings.removes_weigh e.1) removing.now.entries) }
    ensures unique { IsUnique nat_eq removing.now }
{
    let mut size = 0_usize;
    for (_identifier, first) in removing.iter() {
        size = size.saturating_add(first.size());
    }
    size
}

// Takes in an UNSUBACK, if the event sends one: what it answers waits no more.
fn take_answer(removing: &mut IndexMap<u16, Removing>, note: &Note)
    ensures { (i : ℕ) → get nat_eq removing.new i ≡ cond (deletings.answers_under i (sent_deletion note.now)) None (get nat_eq removing.old i) }
{
    if let Some(PacketFields::Unsuback { identifier, .. }) = note.sent_fields() {
        removing.swap_remove(identifier);
    }
}

// An UNSUBSCRIBE waits, unless one under its identifier does already.
fn wait(
    removing: &mut IndexMap<u16, Removing>,
    alloc: Global,
    identifier: u16,
    at: u32,
    filters: &FilterList,
    subscribed: Vec<bool>,
) -> Result<(), Memory>
    ensures { OnOk result ((i : ℕ) → get nat_eq removing.new i ≡ option_or (get nat_eq removing.old i) (cond (i == identifier) (Some (record { at = at; filters = filters.now; subscribed = subscribed.items })) None)) }
{
    if removing.contains_key(&identifier) {
        return Ok(());
    }
    let filters = filters.copy(alloc)?;
    let first = Removing {
        at,
        filters,
        subscribed,
    };
    removing.insert(identifier, first)?;
    Ok(())
}

// Takes in an UNSUBSCRIBE, if the event at this position receives one.
fn take_removal(
    alloc: Global,
    states: &mut IndexMap<String, FilterState>,
    removing: &mut IndexMap<u16, Removing>,
    at: u32,
    note: &Note,
) -> Result<(), Memory>
    ensures states { OnOk result ((f : List ℕ) → get_by_text states.new f ≡ deletings.state_asked at 0 (received_unsubscription note.now) f (get_by_text states.old f)) }
    ensures removing { OnOk result ((i : ℕ) → get nat_eq removing.new i ≡ option_or (get nat_eq removing.old i) (cond (deletings.requests_under i (received_unsubscription note.now)) (deletings.removes_at at (get_by_text states.old) note.now) None)) }
{
    match note.received_fields() {
        Some(
            PacketFields::Unsubscribe {
                identifier,
                filters,
            },
        ) => {
            let subscribed = remove_each(alloc, states, at, filters.as_slice())?;
            wait(removing, alloc, *identifier, at, filters, subscribed)?;
            Ok(())
        }
        _ => Ok(()),
    }
}

// ---- events

/// Whether bytes that nobody can read have come in the session after an event.
pub fn is_unclear(fate: Fate, note: &Note, old: bool) -> bool
    ensures { result ≡ deletings.unclear_next fate note.now old }
{
    note.receives_unclear() || (goes_on(fate, note) && old)
}

// Whether an UNSUBACK denies a subscription that stands.
fn denies_one(
    wide: bool,
    states: &IndexMap<String, FilterState>,
    unclear: bool,
    removing: &IndexMap<u16, Removing>,
    note: &Note,
) -> bool
    ensures { result ≡ deletings.deletes_kept (deletings.denies_kept wide (get_by_text states.now)) unclear (get nat_eq removing.now) (sent_deletion note.now) }
{
    if unclear {
        return false;
    }
    let Some(PacketFields::Unsuback { identifier, codes }) = note.sent_fields() else {
        return false;
    };
    match removing.get(identifier) {
        Some(first) => first.denies(wide, states, codes.as_slice()),
        None => false,
    }
}

// Whether an UNSUBACK invents a subscription.
fn invents_one(
    wide: bool,
    states: &IndexMap<String, FilterState>,
    unclear: bool,
    removing: &IndexMap<u16, Removing>,
    note: &Note,
) -> bool
    ensures { result ≡ deletings.deletes_kept (deletings.invents_kept wide (get_by_text states.now)) unclear (get nat_eq removing.now) (sent_deletion note.now) }
{
    if unclear {
        return false;
    }
    let Some(PacketFields::Unsuback { identifier, codes }) = note.sent_fields() else {
        return false;
    };
    match removing.get(identifier) {
        Some(first) => invents(wide, states, first.filters.as_slice(), codes.as_slice()),
        None => false,
    }
}

// How many filters are known. They are no more than the different ones among filters that have each
// of them.
fn states_size(states: &IndexMap<String, FilterState>) -> usize
    ensures size { result ≡ index_map_len states.now }
    ensures different { (filters : List (List ℕ)) → ((f : List ℕ) → is_some (get_by_text states.now f) ≡ true → list_any (bytes_eq f) filters ≡ true) → result ≤ distinct_count bytes_eq filters }
{
    states.len()
}

// ---- the watcher

/// Watches B06 and B07. It keeps nothing unless they are judged.
#[derive(Drop)]
pub struct Deletions {
    alloc: Global,
    bound: bool,
    /// What is known of the filters of the session's requests.
    states: IndexMap<String, FilterState>,
    /// The first SUBSCRIBE of each identifier that isn't answered.
    waiting: IndexMap<u16, Subscribing>,
    /// The first UNSUBSCRIBE of each identifier that isn't answered.
    removing: IndexMap<u16, Removing>,
    /// Whether bytes of the session may have been a request that nobody can read.
    unclear: bool,
}

impl Deletions {
    /// No filter is known, and nothing waits for an answer.
    pub fn new(alloc: Global, tested: Tested) -> Self
        ensures { ⟦<Deletions as Fated>⟧.agrees result tested (Some Void) [] }
    {
        Deletions {
            alloc,
            bound: Rule::B06.is_judged(tested),
            states: IndexMap::new(alloc),
            waiting: IndexMap::new(alloc),
            removing: IndexMap::new(alloc),
            unclear: false,
        }
    }

    /// Whether the statements are judged.
    #[inline(always)]
    pub fn is_bound(&self) -> bool
        ensures { result ≡ self.now.bound }
    {
        self.bound
    }
}

impl Deletions {
    // Takes in an OPEN or a CLOSE. What waits is answered on its own connection, if at all.
    fn forget(&mut self, kept: bool)
        ensures states { (f : List ℕ) → get_by_text self.new.states f ≡ only kept (get_by_text self.old.states f) }
        ensures waiting { (i : ℕ) → get nat_eq self.new.waiting i ≡ None }
        ensures removing { (i : ℕ) → get nat_eq self.new.removing i ≡ None }
        ensures others { (self.new.bound ≡ self.old.bound) × (self.new.unclear ≡ self.old.unclear) }
    {
        if !kept {
            self.states = IndexMap::new(self.alloc);
        }
        self.waiting = IndexMap::new(self.alloc);
        self.removing = IndexMap::new(self.alloc);
    }

    // Takes in a packet at this position.
    fn take_packet(&mut self, at: u32, note: &Note) -> Result<(), Memory>
        ensures states { OnOk result ((f : List ℕ) → get_by_text self.new.states f ≡ deletings.packet_next at note.now (get nat_eq self.old.waiting) f (get_by_text self.old.states f)) }
        ensures waiting { OnOk result ((i : ℕ) → get nat_eq self.new.waiting i ≡ deletings.waiting_packet at note.now i (get nat_eq self.old.waiting i)) }
        ensures removing { OnOk result ((i : ℕ) → get nat_eq self.new.removing i ≡ deletings.removing_packet at note.now (get_by_text self.old.states) i (get nat_eq self.old.removing i)) }
        ensures others { OnOk result ((self.new.bound ≡ self.old.bound) × (self.new.unclear ≡ self.old.unclear)) }
    {
        let alloc = self.alloc;
        take_answer(&mut self.removing, note);
        take_removal(alloc, &mut self.states, &mut self.removing, at, note)?;
        take_grant(alloc, &mut self.states, &mut self.waiting, note)?;
        take_request(alloc, &mut self.states, &mut self.waiting, at, note)?;
        Ok(())
    }

    // Takes in what an event at this position says of requests, on a connection that has this fate.
    fn take_requests(&mut self, at: u32, fate: Fate, note: &Note) -> Result<(), Memory>
        ensures states { OnOk result ((f : List ℕ) → get_by_text self.new.states f ≡ deletings.state_next fate at note.now (get nat_eq self.old.waiting) f (get_by_text self.old.states f)) }
        ensures waiting { OnOk result ((i : ℕ) → get nat_eq self.new.waiting i ≡ deletings.waiting_next fate at note.now i (get nat_eq self.old.waiting i)) }
        ensures removing { OnOk result ((i : ℕ) → get nat_eq self.new.removing i ≡ deletings.removing_next fate at note.now (get_by_text self.old.states) i (get nat_eq self.old.removing i)) }
        ensures others { OnOk result ((self.new.bound ≡ self.old.bound) × (self.new.unclear ≡ self.old.unclear)) }
    {
        if note.is_boundary() {
            self.forget(goes_on(fate, note));
            return Ok(());
        }
        if !fate.accepts() {
            return Ok(());
        }
        self.take_packet(at, note)
    }

    // Takes in an event at this position, if the statements are judged.
    fn take_bound(&mut self, at: u32, fate: Fate, note: &Note) -> Result<(), Memory>
        ensures taken { OnOk result (self.old.bound ≡ true → TakesIn fate at note.now (get_by_text self.old.states) (get_by_text self.new.states) (get nat_eq self.old.waiting) (get nat_eq self.new.waiting) (get nat_eq self.old.removing) (get nat_eq self.new.removing) self.old.unclear self.new.unclear) }
        ensures left { OnOk result (self.old.bound ≡ false → self.new ≡ self.old) }
        ensures bound { OnOk result (self.new.bound ≡ self.old.bound) }
    {
        if !self.bound {
            return Ok(());
        }
        self.take_requests(at, fate, note)?;
        self.unclear = is_unclear(fate, note, self.unclear);
        Ok(())
    }

    // Whether the statements are judged, and an UNSUBACK that is sent on a connection that is
    // accepted denies a subscription that stands: says that there was none, or also that it was
    // deleted.
    fn finds_denied(&self, wide: bool, fate: Fate, note: &Note) -> bool
        ensures { result ≡ (self.now.bound && (accepts fate && deletings.deletes_kept (deletings.denies_kept wide (get_by_text self.now.states)) self.now.unclear (get nat_eq self.now.removing) (sent_deletion note.now))) }
    {
        self.bound
            && (fate.accepts()
                && denies_one(wide, &self.states, self.unclear, &self.removing, note))
    }

    // Whether they are judged, and such an UNSUBACK invents a subscription: says of a filter that
    // was never subscribed that it was deleted, or also that of any, and of such a filter that it
    // wasn't subscribed.
    fn finds_invented(&self, wide: bool, fate: Fate, note: &Note) -> bool
        ensures { result ≡ (self.now.bound && (accepts fate && deletings.deletes_kept (deletings.invents_kept wide (get_by_text self.now.states)) self.now.unclear (get nat_eq self.now.removing) (sent_deletion note.now))) }
    {
        self.bound
            && (fate.accepts()
                && invents_one(wide, &self.states, self.unclear, &self.removing, note))
    }

    // Takes in an event that isn't bare.
    fn take_noted(
        &mut self,
        at: Place3,
        decided: u32,
        fate: Fate,
        note: &Note,
        faults: &mut Faults,
    ) -> Result<(), Memory>
        ensures agrees { OnOk result ((tested : TheTested) (past : List Seen) → IsUnder tested fate decided (seen at note.now) past → ⟦<Deletions as Fated>⟧.agrees self.old tested (fate_before tested fate (seen at note.now) past) past → ⟦<Deletions as Fated>⟧.agrees self.new tested (Some fate) (seen at note.now ∷ past)) }
        ensures grows { OnOk result ((tested : TheTested) (past : List Seen) → IsUnder tested fate decided (seen at note.now) past → ⟦<Deletions as Fated>⟧.agrees self.old tested (fate_before tested fate (seen at note.now) past) past → Gains (λ k r. ⟦<Deletions as Fated>⟧.judges r && turns_with tested fate (seen at note.now) past k r) tested (seen at note.now ∷ past) decided faults.old faults.new) }
        ensures memory { OnErr result ((tested : TheTested) (past : List Seen) → IsUnder tested fate decided (seen at note.now) past → ⟦<Deletions as Fated>⟧.agrees self.old tested (fate_before tested fate (seen at note.now) past) past → GainsWithin (λ k r. ⟦<Deletions as Fated>⟧.judges r && turns_with tested fate (seen at note.now) past k r) tested (seen at note.now ∷ past) decided faults.old faults.new) }
    {
        let denied = self.finds_denied(false, fate, note);
        let invented = self.finds_invented(false, fate, note);
        self.take_bound(at.position, fate, note)?;
        judge_by(Rule::B06, denied, at, decided, faults)?;
        judge_by(Rule::B07, invented, at, decided, faults)?;
        Ok(())
    }
}

impl Deletions {
    // Takes in any event: a bare packet leaves all as it is.
    fn take_event(
        &mut self,
        at: Place3,
        decided: u32,
        fate: Fate,
        event: NoteRef<'_>,
        faults: &mut Faults,
    ) -> Result<(), Memory>
        ensures agrees { OnOk result ((tested : TheTested) (past : List Seen) → IsUnder tested fate decided (seen at (note_in event.entry)) past → ⟦<Deletions as Fated>⟧.agrees self.old tested (fate_before tested fate (seen at (note_in event.entry)) past) past → ⟦<Deletions as Fated>⟧.agrees self.new tested (Some fate) (seen at (note_in event.entry) ∷ past)) }
        ensures grows { OnOk result ((tested : TheTested) (past : List Seen) → IsUnder tested fate decided (seen at (note_in event.entry)) past → ⟦<Deletions as Fated>⟧.agrees self.old tested (fate_before tested fate (seen at (note_in event.entry)) past) past → Gains (λ k r. ⟦<Deletions as Fated>⟧.judges r && turns_with tested fate (seen at (note_in event.entry)) past k r) tested (seen at (note_in event.entry) ∷ past) decided faults.old faults.new) }
        ensures memory { OnErr result ((tested : TheTested) (past : List Seen) → IsUnder tested fate decided (seen at (note_in event.entry)) past → ⟦<Deletions as Fated>⟧.agrees self.old tested (fate_before tested fate (seen at (note_in event.entry)) past) past → GainsWithin (λ k r. ⟦<Deletions as Fated>⟧.judges r && turns_with tested fate (seen at (note_in event.entry)) past k r) tested (seen at (note_in event.entry) ∷ past) decided faults.old faults.new) }
    {
        match event {
            NoteRef::Kept(note) => self.take_noted(at, decided, fate, note, faults),
            NoteRef::Bare(_) => {
                self.passes();
                Ok(())
            }
        }
    }
}

impl Fated for Deletions {
    ghost agrees = { λ s tested taken past. (s.bound ≡ is_bound B06 tested) × (s.bound ≡ false → deletions_weigh s ≡ 0) × (s.bound ≡ true → AreDeletions (get_by_text s.states) (get nat_eq s.waiting) (get nat_eq s.removing) s.unclear tested taken past) };

    ghost judges = { λ r. same_rule r B06 || same_rule r B07 };

    ghost weighs = { deletions_weigh };

    ghost bound = { λ tested taken past. 2 * deletions_burden tested taken past };

    fn fated<E: Taken>(
        &mut self,
        at: Place3,
        decided: u32,
        fate: Fate,
        event: &E,
        faults: &mut Faults,
    ) -> Result<(), Memory> {
        let event = event.as_ref();
        self.take_event(at, decided, fate, event, faults)
    }

    // The three maps of the struct, and what is in two of them.
    fn weight(&self) -> usize {
        states_size(&self.states)
            .saturating_add(waiting_size(&self.waiting))
            .saturating_add(removing_size(&self.removing))
    }
}

impl Selective for Deletions {
    ghost concerns = { concerns_deletions };

    fn passes(&self) {}
}
