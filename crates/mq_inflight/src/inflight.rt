//! The Packet Identifiers in use, and what is sent again (MQTT 5.0, sections 2.2.1, 4.3 and 4.4).
ghost use Rattle.std.specs.Prelude.{refl};
ghost use Rattle.std.specs.Prelude.{false, ◌≡◌, ◌∷◌, ◌<◌, ◌≤◌, ◌+◌, ◌*◌, ℕ, ◌&&◌, ◌||◌, not, cond, is_some, length, List, Option, OnOk, OnErr, nat_eq, [], Some, None};
ghost use Rattle.std.specs.Option.{option_or};
ghost use Rattle.mq_rules.specs.KeptOrder.{value_under};
ghost use Rattle.indexmap.specs.IndexSet.{contains};
ghost use Rattle.mq_rules.specs.declared.role.Tested.{Tested as TheTested};
ghost use Rattle.mq_rules.specs.declared.fate.Fate.{Fate as TheFate};
ghost use Rattle.mq_rules.specs.declared.fate.Fate.TheVariants.{Void};
ghost use Rattle.mq_rules.specs.declared.note.Seen.{Seen};
ghost use Rattle.mq_rules.specs.Notes.{sent_as, received_as, subscribe_in, suback_in, unsubscribe_in, unsuback_in, is_open as opens, is_boundary};
ghost use Rattle.mq_rules.specs.Under.{seen, IsUnder, fate_before, turns_with};
ghost use Rattle.mq_rules.specs.Growing.{Gains, GainsWithin};
ghost use Rattle.mq_inflight.specs.Burden.{open_ids, delivering_ids, void_ids, first_ids, subscribing_ids, unsubscribing_ids};
ghost use Rattle.mq_inflight.specs.Weights.{inflight_weighs};
ghost use Rattle.mq_fates.specs.Taking.{ends_by, announced};
ghost use Rattle.mq_inflight.specs.Quotas.{may_count as counts_now, flown as flown_by};
ghost use Rattle.mq_inflight.specs.Earlier.{GoesOn};
ghost use Rattle.mq_inflight.specs.Opened.{entry_next};
ghost use Rattle.mq_inflight.specs.Resending.{bounds_next, bounded_next, by_itself, IsResent};
ghost use Rattle.mq_rules.specs.Connections.{accepts};
ghost use Rattle.mq_rules.specs.Identifiers.{sent_under as under};
ghost use Rattle.mq_rules.specs.Words.{is_id};
ghost use Rattle.mq_inflight.specs.Using.{IsUsing, breaks, is_inflight, waits_next, stray_next, unanswered_next, void_next, resent_next, all_excused};
ghost use Rattle.mq_inflight.specs.Concerns.{concerns_flight};
ghost use Rattle.mq_rules.specs.Notes.{note_in, note_of_bare};

mod asking;
mod broken;
mod earlier;
mod entry;
mod moving;
mod resends;
mod resuming;
mod values;

use crate::quota::{flown, may_count, peer_after};
use broken::{
    Broken, all_excused, is_out_of_order, is_past_pubrel, is_twice, is_unopened, judge_all,
    resent_after, takes,
};
use earlier::Earlier;
use entry::{Entry, take_entries};
use indexmap::IndexSet;
use mq_fates::{Fated, Selective, Taken, ended_after, opened_after, set_size};
use mq_log::Place3;
use mq_rules::{
    Bare, CountedByIdentifier, Fate, Faults, Memory, Note, NoteRef, Noted, Role, Rule, Tested,
};
use resends::{
    Bounds, Resent, bounded_after, bounds_after, excused_by_itself, excused_now, passed_since,
    resent_still, settles_now,
};
use std::alloc::Global;

/// Watches S01 to S06.
#[derive(Drop)]
pub struct Inflight {
    alloc: Global,
    role: Role,
    fate: Fate,
    /// Whether PUBLISH packets have to be sent again in their order.
    ordered: bool,
    /// The identifiers that are open in the session.
    entries: CountedByIdentifier<Entry>,
    /// What is known not to be due on the connection.
    again: Resent,
    /// Those of PUBLISH packets that were sent on the connection that is open, and not acknowledged
    /// there since, but for those whose PUBLISH is in its entry.
    stray: IndexSet<u16>,
    /// Those under which a PUBLISH or a PUBREL was sent on the connection that is open, if it is
    /// resumed, and that weren't set free there since.
    unanswered: IndexSet<u16>,
    /// Those of PUBLISH packets that were sent on void connections.
    void: IndexSet<u16>,
    /// What was cut off, or sent before the session began.
    earlier: Earlier,
    /// Those of SUBSCRIBE packets that were sent on the connection that is open, and not answered.
    subscribing: IndexSet<u16>,
    /// Those of UNSUBSCRIBE packets that were sent on the connection that is open, and not
    /// answered.
    unsubscribing: IndexSet<u16>,
    /// The greatest position of an opener whose PUBLISH was sent again on the connection.
    resent: u32,
    /// Whether no REST binds on the connection any more.
    ended: bool,
    /// The position of the connection's OPEN.
    opened: u32,
    /// The Receive Maximum that the peer announced.
    peer: Option<u16>,
    /// How many PUBLISH packets are in flight on the connection.
    in_flight: u64,
    /// What the peer announced of what may be sent.
    bounds: Option<Bounds>,
    /// The position of the OPEN of the latest connection before this one that passes over what
    /// isn't sent there: it was resumed, and the peer announced a Maximum Packet Size or a Maximum
    /// QoS.
    bounded: u32,
}

// Puts in what is begun, after what is ended is out. An OPEN and a CLOSE end all.
#[inline(always)]
fn await_answer(
    waiting: &mut IndexSet<u16>,
    alloc: Global,
    boundary: bool,
    begun: Option<u16>,
    ended: Option<u16>,
) -> Result<(), Memory>
    ensures { OnOk result ((i : ℕ) → contains nat_eq waiting.new i ≡ waits_next begun ended boundary i (contains nat_eq waiting.old i)) }
{
    if boundary {
        // A large set that is cleared costs its size each time.
        *waiting = IndexSet::new(alloc);
    }
    if let Some(i) = ended {
        waiting.swap_remove(&i);
    }
    if let Some(i) = begun {
        waiting.insert(i)?;
    }
    Ok(())
}

// Puts in the identifier of a PUBLISH that is sent on a void connection.
#[inline(always)]
fn take_void(void: &mut IndexSet<u16>, fate: Fate, note: &Note) -> Result<(), Memory>
    ensures { OnOk result ((i : ℕ) → contains nat_eq void.new i ≡ void_next fate note.now i (contains nat_eq void.old i)) }
{
    if !fate.is_void() {
        return Ok(());
    }
    if let Some(i) = note.delivery() {
        void.insert(i)?;
    }
    Ok(())
}

// Takes in a PUBLISH whose identifier isn't open, and what acknowledges it. What is open was taken
// in before.
#[inline(always)]
fn take_stray(
    stray: &mut IndexSet<u16>,
    alloc: Global,
    entries: &CountedByIdentifier<Entry>,
    fate: Fate,
    note: &Note,
) -> Result<(), Memory>
    ensures { OnOk result ((i : ℕ) → contains nat_eq stray.new i ≡ stray_next fate note.now (value_under entries.now) i (contains nat_eq stray.old i)) }
{
    let begun = unkept(entries, fate, note.delivery());
    let ended = note.closer();
    await_answer(stray, alloc, note.is_boundary(), begun, ended)?;
    Ok(())
}

// The identifier of a PUBLISH, if no entry keeps that it was sent.
fn unkept(entries: &CountedByIdentifier<Entry>, fate: Fate, delivery: Option<u16>) -> Option<u16>
    ensures { (i : ℕ) → is_id i result ≡ (is_id i delivery && not (accepts fate && is_some (value_under entries.now i))) }
{
    match delivery {
        Some(i) => {
            if fate.accepts() && entries.contains(i) {
                return None;
            }
            Some(i)
        }
        None => None,
    }
}

// The identifier of a PUBLISH of QoS above 0, or of a PUBREL, that is sent.
fn sent_under(note: &Note) -> Option<u16>
    ensures { result ≡ under note.now }
{
    note.delivery().or(note.sent_pubrel())
}

// Takes in a PUBLISH or a PUBREL that is sent on a resumed connection, and what answers it.
#[inline(always)]
fn take_unanswered(
    unanswered: &mut IndexSet<u16>,
    alloc: Global,
    fate: Fate,
    note: &Note,
) -> Result<(), Memory>
    ensures { OnOk result ((i : ℕ) → contains nat_eq unanswered.new i ≡ unanswered_next fate note.now i (contains nat_eq unanswered.old i)) }
{
    if note.is_boundary() {
        // A large set that is cleared costs its size each time.
        *unanswered = IndexSet::new(alloc);
        return Ok(());
    }
    if !fate.resumes() {
        return Ok(());
    }
    keep_unanswered(unanswered, sent_under(note), note.closer())?;
    Ok(())
}

// Takes in what is sent on a resumed connection, and what sets its identifier free.
#[inline(never)]
fn keep_unanswered(
    unanswered: &mut IndexSet<u16>,
    begun: Option<u16>,
    ended: Option<u16>,
) -> Result<(), Memory>
    ensures { OnOk result ((i : ℕ) → contains nat_eq unanswered.new i ≡ (is_id i begun || (not (is_id i ended) && contains nat_eq unanswered.old i))) }
{
    if let Some(i) = ended {
        unanswered.swap_remove(&i);
    }
    if let Some(i) = begun {
        unanswered.insert(i)?;
    }
    Ok(())
}

// Takes in a SUBSCRIBE and a SUBACK.
#[inline(always)]
fn take_subscribing(
    subscribing: &mut IndexSet<u16>,
    alloc: Global,
    note: &Note,
) -> Result<(), Memory>
    ensures { OnOk result ((i : ℕ) → contains nat_eq subscribing.new i ≡ waits_next (sent_as subscribe_in note.now) (received_as suback_in note.now) (is_boundary note.now) i (contains nat_eq subscribing.old i)) }
{
    let begun = note.sent_subscribe();
    let ended = note.received_suback();
    await_answer(subscribing, alloc, note.is_boundary(), begun, ended)?;
    Ok(())
}

// Takes in an UNSUBSCRIBE and an UNSUBACK.
#[inline(always)]
fn take_unsubscribing(
    unsubscribing: &mut IndexSet<u16>,
    alloc: Global,
    note: &Note,
) -> Result<(), Memory>
    ensures { OnOk result ((i : ℕ) → contains nat_eq unsubscribing.new i ≡ waits_next (sent_as unsubscribe_in note.now) (received_as unsuback_in note.now) (is_boundary note.now) i (contains nat_eq unsubscribing.old i)) }
{
    let begun = note.sent_unsubscribe();
    let ended = note.received_unsuback();
    await_answer(unsubscribing, alloc, note.is_boundary(), begun, ended)?;
    Ok(())
}

impl Inflight {
    /// None is in use.
    pub fn new(alloc: Global, tested: Tested) -> Self
        ensures { ⟦<Inflight as Fated>⟧.agrees result tested (Some Void) [] }
    {
        Inflight {
            alloc,
            role: tested.role,
            fate: Fate::Void,
            ordered: Rule::S05.is_judged(tested),
            entries: CountedByIdentifier::new(alloc),
            again: Resent {
                all: false,
                confirmed: false,
            },
            stray: IndexSet::new(alloc),
            unanswered: IndexSet::new(alloc),
            void: IndexSet::new(alloc),
            earlier: Earlier::new(alloc),
            subscribing: IndexSet::new(alloc),
            unsubscribing: IndexSet::new(alloc),
            resent: 0,
            ended: false,
            opened: 0,
            peer: None,
            in_flight: 0,
            bounds: None,
            bounded: 0,
        }
    }

    // What an event of a connection with this fate breaks, which is known or isn't yet.
    fn broken_by(&self, fate: Fate, known: bool, note: &Note) -> Broken
        ensures { result ≡ all_excused fate known (breaks self.now fate note.now) }
    {
        all_excused(fate, known, self.breaks(fate, note))
    }

    // What it breaks, if the end knows what it has to.
    fn breaks(&self, fate: Fate, note: &Note) -> Broken
        ensures { result ≡ breaks self.now fate note.now }
    {
        Broken {
            takes_busy: takes(
                fate,
                self.role,
                note,
                &self.entries,
                passed_since(fate, self.bounds, self.opened, self.bounded),
                &self.subscribing,
                &self.unsubscribing,
            ),
            unopened: is_unopened(fate, note, &self.entries, &self.void, &self.earlier),
            twice: is_twice(fate, note, &self.entries, self.opened, &self.stray),
            past_pubrel: is_past_pubrel(fate, note, &self.entries),
            out_of_order: is_out_of_order(self.ordered, fate, note, &self.entries, self.resent),
        }
    }

    // Takes in what is known of the connection, by what was open before.
    fn take_connection(&mut self, at: Place3, fate: Fate, note: &Note)
        ensures state { self.new ≡ record self.old { fate = fate; resent = resent_next note.now (value_under self.old.entries) self.old.resent; ended = ends_by note.now || (not (opens note.now) && self.old.ended); opened = cond (opens note.now) at.position self.old.opened; peer = option_or (cond (opens note.now) None self.old.peer) (announced self.old.role note.now); in_flight = self.new.in_flight; bounds = bounds_next self.old.role note.now self.old.bounds; bounded = bounded_next note.now self.old.fate self.old.bounds self.old.opened self.old.bounded } }
        ensures flying { self.old.in_flight < at.position → self.new.in_flight ≡ flown_by (counts_now self.old.role self.old.peer) note.now self.old.in_flight }
    {
        self.bounded = bounded_after(note, self.fate, self.bounds, self.opened, self.bounded);
        self.fate = fate;
        self.resent = resent_after(self.resent, note, &self.entries);
        self.ended = ended_after(self.ended, note);
        self.opened = opened_after(self.opened, at.position, note.is_open());
        let counted = may_count(self.role, self.peer);
        let delivers = note.delivery().is_some();
        self.in_flight = flown(counted, delivers, note, self.in_flight, at.position);
        self.peer = peer_after(self.role, self.peer, note);
        self.bounds = bounds_after(self.role, self.bounds, note);
    }

    // Takes in what was sent and waits for an answer, and what was sent on void connections. What
    // is open was taken in before.
    fn take_waiting(&mut self, fate: Fate, note: &Note) -> Result<(), Memory>
        ensures same { OnOk result (self.new ≡ record self.old { stray = self.new.stray; unanswered = self.new.unanswered; void = self.new.void; subscribing = self.new.subscribing; unsubscribing = self.new.unsubscribing }) }
        ensures stray { OnOk result ((i : ℕ) → contains nat_eq self.new.stray i ≡ stray_next fate note.now (value_under self.old.entries) i (contains nat_eq self.old.stray i)) }
        ensures unanswered { OnOk result ((i : ℕ) → contains nat_eq self.new.unanswered i ≡ unanswered_next fate note.now i (contains nat_eq self.old.unanswered i)) }
        ensures void { OnOk result ((i : ℕ) → contains nat_eq self.new.void i ≡ void_next fate note.now i (contains nat_eq self.old.void i)) }
        ensures subscribing { OnOk result ((i : ℕ) → contains nat_eq self.new.subscribing i ≡ waits_next (sent_as subscribe_in note.now) (received_as suback_in note.now) (is_boundary note.now) i (contains nat_eq self.old.subscribing i)) }
        ensures unsubscribing { OnOk result ((i : ℕ) → contains nat_eq self.new.unsubscribing i ≡ waits_next (sent_as unsubscribe_in note.now) (received_as unsuback_in note.now) (is_boundary note.now) i (contains nat_eq self.old.unsubscribing i)) }
    {
        let alloc = self.alloc;
        take_stray(&mut self.stray, alloc, &self.entries, fate, note)?;
        take_unanswered(&mut self.unanswered, alloc, fate, note)?;
        take_void(&mut self.void, fate, note)?;
        take_subscribing(&mut self.subscribing, alloc, note)?;
        take_unsubscribing(&mut self.unsubscribing, alloc, note)?;
        Ok(())
    }

    // Takes in an event of a connection with this fate.
    fn take_in(&mut self, at: Place3, fate: Fate, known: bool, note: &Note) -> Result<(), Memory>
        ensures role { OnOk result (self.new.role ≡ self.old.role) }
        ensures fate { OnOk result (self.new.fate ≡ fate) }
        ensures ordered { OnOk result (self.new.ordered ≡ self.old.ordered) }
        ensures entries { OnOk result ((i : ℕ) → value_under self.new.entries i ≡ entry_next fate note.now self.old.bounded at i (value_under self.old.entries i)) }
        ensures stray { OnOk result ((i : ℕ) → contains nat_eq self.new.stray i ≡ stray_next fate note.now (value_under self.new.entries) i (contains nat_eq self.old.stray i)) }
        ensures unanswered { OnOk result ((i : ℕ) → contains nat_eq self.new.unanswered i ≡ unanswered_next fate note.now i (contains nat_eq self.old.unanswered i)) }
        ensures void { OnOk result ((i : ℕ) → contains nat_eq self.new.void i ≡ void_next fate note.now i (contains nat_eq self.old.void i)) }
        ensures subscribing { OnOk result ((i : ℕ) → contains nat_eq self.new.subscribing i ≡ waits_next (sent_as subscribe_in note.now) (received_as suback_in note.now) (is_boundary note.now) i (contains nat_eq self.old.subscribing i)) }
        ensures unsubscribing { OnOk result ((i : ℕ) → contains nat_eq self.new.unsubscribing i ≡ waits_next (sent_as unsubscribe_in note.now) (received_as unsuback_in note.now) (is_boundary note.now) i (contains nat_eq self.old.unsubscribing i)) }
        ensures earlier { OnOk result (GoesOn self.old.earlier self.new.earlier self.old.role self.old.fate fate known note.now) }
        ensures resent { OnOk result (self.new.resent ≡ resent_next note.now (value_under self.old.entries) self.old.resent) }
        ensures ended { OnOk result (self.new.ended ≡ (ends_by note.now || (not (opens note.now) && self.old.ended))) }
        ensures opened { OnOk result (self.new.opened ≡ cond (opens note.now) at.position self.old.opened) }
        ensures peer { OnOk result (self.new.peer ≡ option_or (cond (opens note.now) None self.old.peer) (announced self.old.role note.now)) }
        ensures flying { self.old.in_flight < at.position → OnOk result (self.new.in_flight ≡ flown_by (counts_now self.old.role self.old.peer) note.now self.old.in_flight) }
        ensures bounds { OnOk result (self.new.bounds ≡ bounds_next self.old.role note.now self.old.bounds) }
        ensures bounded { OnOk result (self.new.bounded ≡ bounded_next note.now self.old.fate self.old.bounds self.old.opened self.old.bounded) }
        ensures again { self.old.opened ≤ at.position → self.old.bounded ≤ self.old.opened → (opens note.now ≡ false → self.old.fate ≡ fate) → IsResent self.old.opened (by_itself self.old.fate self.old.bounds self.old.opened self.old.bounded) (value_under self.old.entries) self.old.again → OnOk result (IsResent self.new.opened (by_itself self.new.fate self.new.bounds self.new.opened self.new.bounded) (value_under self.new.entries) self.new.again) }
    {
        let alloc = self.alloc;
        let role = self.role;
        let before = self.fate;
        let bounded = self.bounded;
        self.earlier
            .take_in(alloc, role, before, fate, known, note)?;
        self.again = resent_still(self.again, &self.entries, self.opened, note);
        self.take_connection(at, fate, note);
        take_entries(&mut self.entries, bounded, at, fate, note)?;
        self.take_waiting(fate, note)?;
        Ok(())
    }
}

impl Fated for Inflight {
    ghost agrees = { IsUsing };

    ghost judges = { is_inflight };

    ghost weighs = { inflight_weighs };

    ghost bound = { λ tested taken past. open_ids tested.role taken past + 2 * delivering_ids past + void_ids tested.role taken past + first_ids tested.role taken past + subscribing_ids past + unsubscribing_ids past };

    #[inline(always)]
    fn fated<E: Taken>(
        &mut self,
        at: Place3,
        decided: u32,
        fate: Fate,
        event: &E,
        faults: &mut Faults,
    ) -> Result<(), Memory> {
        match event.as_ref() {
            NoteRef::Kept(note) => self.take_noted(at, decided, fate, note, faults),
            NoteRef::Bare(bare) => {
                if decided == at.position {
                    self.take_bare(at, bare, faults)?;
                    return Ok(());
                }
                self.take_late(at, decided, fate, bare, faults)
            }
        }
    }

    // The table and all six sets of the struct.
    fn weight(&self) -> usize {
        self.entries
            .len()
            .saturating_add(set_size(&self.stray))
            .saturating_add(set_size(&self.unanswered))
            .saturating_add(set_size(&self.void))
            .saturating_add(set_size(&self.earlier.first))
            .saturating_add(set_size(&self.subscribing))
            .saturating_add(set_size(&self.unsubscribing))
    }
}

impl Inflight {
    // Takes in an event by its note.
    fn take_noted(
        &mut self,
        at: Place3,
        decided: u32,
        fate: Fate,
        note: &Note,
        faults: &mut Faults,
    ) -> Result<(), Memory>
        ensures agrees { OnOk result ((tested : TheTested) (past : List Seen) → IsUnder tested fate decided (seen at note.now) past → ⟦<Inflight as Fated>⟧.agrees self.old tested (fate_before tested fate (seen at note.now) past) past → ⟦<Inflight as Fated>⟧.agrees self.new tested (Some fate) (seen at note.now ∷ past)) }
        ensures grows { OnOk result ((tested : TheTested) (past : List Seen) → IsUnder tested fate decided (seen at note.now) past → ⟦<Inflight as Fated>⟧.agrees self.old tested (fate_before tested fate (seen at note.now) past) past → Gains (λ k r. ⟦<Inflight as Fated>⟧.judges r && turns_with tested fate (seen at note.now) past k r) tested (seen at note.now ∷ past) decided faults.old faults.new) }
        ensures memory { OnErr result ((tested : TheTested) (past : List Seen) → IsUnder tested fate decided (seen at note.now) past → ⟦<Inflight as Fated>⟧.agrees self.old tested (fate_before tested fate (seen at note.now) past) past → GainsWithin (λ k r. ⟦<Inflight as Fated>⟧.judges r && turns_with tested fate (seen at note.now) past k r) tested (seen at note.now ∷ past) decided faults.old faults.new) }
    {
        let broken = self.broken_by(fate, decided == at.position, note);
        judge_all(&broken, at, decided, faults)?;
        let known = decided == at.position;
        let event = NoteRef::Kept(note);
        let settles = settles_now(fate, known, self.ended, &self.unanswered, event);
        let single = excused_by_itself(self.fate, self.bounds, self.opened, self.bounded);
        let excused = excused_now(self.peer, self.in_flight, single);
        self.again = self.settle(settles, excused, decided, faults)?;
        self.take_in(at, fate, known, note)?;
        Ok(())
    }

    // Takes in a bare packet that was held, by a note. None is held in this form.
    #[inline(never)]
    fn take_late(
        &mut self,
        at: Place3,
        decided: u32,
        fate: Fate,
        bare: Bare<'_>,
        faults: &mut Faults,
    ) -> Result<(), Memory>
        ensures agrees { OnOk result ((tested : TheTested) (past : List Seen) → IsUnder tested fate decided (seen at (note_of_bare bare.entry)) past → ⟦<Inflight as Fated>⟧.agrees self.old tested (fate_before tested fate (seen at (note_of_bare bare.entry)) past) past → ⟦<Inflight as Fated>⟧.agrees self.new tested (Some fate) (seen at (note_of_bare bare.entry) ∷ past)) }
        ensures grows { OnOk result ((tested : TheTested) (past : List Seen) → IsUnder tested fate decided (seen at (note_of_bare bare.entry)) past → ⟦<Inflight as Fated>⟧.agrees self.old tested (fate_before tested fate (seen at (note_of_bare bare.entry)) past) past → Gains (λ k r. ⟦<Inflight as Fated>⟧.judges r && turns_with tested fate (seen at (note_of_bare bare.entry)) past k r) tested (seen at (note_of_bare bare.entry) ∷ past) decided faults.old faults.new) }
        ensures memory { OnErr result ((tested : TheTested) (past : List Seen) → IsUnder tested fate decided (seen at (note_of_bare bare.entry)) past → ⟦<Inflight as Fated>⟧.agrees self.old tested (fate_before tested fate (seen at (note_of_bare bare.entry)) past) past → GainsWithin (λ k r. ⟦<Inflight as Fated>⟧.judges r && turns_with tested fate (seen at (note_of_bare bare.entry)) past k r) tested (seen at (note_of_bare bare.entry) ∷ past) decided faults.old faults.new) }
    {
        let note = bare.note();
        self.take_noted(at, decided, fate, &note, faults)
    }
}

impl Selective for Inflight {
    ghost concerns = { concerns_flight };

    fn passes(&self) {}

    #[inline(always)]
    fn may_concern<E: Taken>(&self, event: &E) -> bool {
        event.may_concern_identifiers()
    }
}
