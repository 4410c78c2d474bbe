//! Bare packets, taken in by their numbers (MQTT 5.0, sections 2.2.1 and 4.3): a new
//! PUBLISH, and what acknowledges one.
ghost use Rattle.std.specs.Prelude.{◌≡◌, ◌∷◌, ◌+◌, ◌<◌, ◌&&◌, ◌||◌, ℕ, List, Option, true, false, not, OnOk, OnErr, IfOk, Some, None, is_some, length, nat_eq, cond};
ghost use Rattle.std.specs.Option.{option_or};
ghost use Rattle.mq_rules.specs.KeptOrder.{value_under};
ghost use Rattle.indexmap.specs.IndexSet.{contains};
ghost use Rattle.mq_rules.specs.declared.role.Tested.{Tested};
ghost use Rattle.mq_rules.specs.declared.fate.Fate.{Fate as TheFate};
ghost use Rattle.mq_rules.specs.declared.note.Note.{Note as TheNote};
ghost use Rattle.mq_rules.specs.declared.note.Seen.{Seen};
ghost use Rattle.mq_rules.specs.FaultKeys.{FaultMap};
ghost use Rattle.mq_rules.specs.Connections.{accepts, latest_fate, resumes};
ghost use Rattle.mq_rules.specs.Under.{seen, Follows, IsKnown, turns_known};
ghost use Rattle.mq_rules.specs.Growing.{Gains, GainsWithin};
ghost use Rattle.mq_rules.specs.Notes.{note_of_bare, refuses, is_acknowledged, is_exactly_once as exactly_once};
ghost use Rattle.mq_rules.specs.Words.{is_id, is_some_and, only};
ghost use Rattle.mq_log.specs.declared.kind.Direction.TheVariants as directions;
ghost use Rattle.mq_inflight.specs.Moving.{Moves, IsMoved, IsStep, IsWithin, untouched};
ghost use Rattle.mq_inflight.specs.Resending.{passed_since};
ghost use Rattle.mq_inflight.specs.Using.{is_taken, IsUsing};

use super::broken::is_taken as held;
use super::entry::{Entry, close, confirm, open_new, release};
use super::resends::{Resent, passed_since as since_now};
use super::{Inflight, keep_unanswered};
use crate::quota::{flown_by, may_count};
use indexmap::IndexSet;
use mq_fates::{Fated, is_acknowledged as acknowledges, judge_by};
use mq_log::{Direction, Place3};
use mq_packet::Qos;
use mq_rules::{Bare, BareFields, CountedByIdentifier, Fate, Faults, Memory, Rule};

/// The identifier that a PUBLISH opens: its QoS is above 0, and DUP is 0.
#[inline(always)]
pub fn opened_by(identifier: Option<u16>, qos: Qos, duplicate: bool) -> Option<u16>
    ensures { result ≡ only (not duplicate) (only (is_acknowledged qos) identifier) }
{
    if duplicate || !acknowledges(qos) {
        return None;
    }
    identifier
}

// Whether a PUBREC answers a PUBLISH of this QoS, and not a PUBACK (MQTT 5.0, section 4.3).
#[inline(always)]
fn is_exactly_once(qos: Qos) -> bool
    ensures { result ≡ exactly_once qos }
{
    matches!(qos, Qos::ExactlyOnce)
}

// Whether a PUBREC below 0x80 comes for an identifier that is open and wasn't sent again on the
// connection.
#[inline(always)]
fn confirms_late(entries: &CountedByIdentifier<Entry>, opened: u32, pubrec: Option<u16>) -> bool
    ensures { result ≡ untouched opened (value_under entries.now) pubrec }
{
    match pubrec {
        Some(i) => match entries.get(i) {
            Some(entry) => entry.sent < opened,
            None => false,
        },
        None => false,
    }
}

// Whether a SUBSCRIBE or an UNSUBSCRIBE under this identifier waits. In most logs none does.
#[inline(always)]
fn is_awaited(subscribing: &IndexSet<u16>, unsubscribing: &IndexSet<u16>, i: u16) -> bool
    ensures { result ≡ (contains nat_eq subscribing.now i || contains nat_eq unsubscribing.now i) }
{
    is_in(subscribing, i) || is_in(unsubscribing, i)
}

// Whether one of two holds, which are both found out in any case.
#[inline(always)]
fn either(a: bool, b: bool) -> bool
    ensures { result ≡ (a || b) }
{
    a || b
}

// Takes in what is sent, and what sets an identifier free, if the connection is resumed. Most
// aren't.
#[inline(always)]
fn move_unanswered(
    unanswered: &mut IndexSet<u16>,
    fate: Fate,
    opener: Option<u16>,
    closer: Option<u16>,
    pubrel: Option<u16>,
) -> Result<(), Memory>
    ensures { OnOk result ((i : ℕ) → contains nat_eq unanswered.new i ≡ cond (resumes fate) (is_id i (option_or opener pubrel) || (not (is_id i closer) && contains nat_eq unanswered.old i)) (contains nat_eq unanswered.old i)) }
{
    if !fate.resumes() {
        return Ok(());
    }
    keep_unanswered(unanswered, opener.or(pubrel), closer)?;
    Ok(())
}

// Takes an identifier out of a set. Most sets are empty.
#[inline(always)]
fn remove(set: &mut IndexSet<u16>, identifier: Option<u16>)
    ensures { (i : ℕ) → contains nat_eq set.new i ≡ (not (is_id i identifier) && contains nat_eq set.old i) }
{
    if let Some(i) = identifier {
        if !set.is_empty() {
            set.swap_remove(&i);
        }
    }
}

// Whether a set has this identifier. Most sets are empty.
#[inline(always)]
fn is_in(set: &IndexSet<u16>, i: u16) -> bool
    ensures { result ≡ contains nat_eq set.now i }
{
    if set.is_empty() {
        return false;
    }
    set.contains(&i)
}

impl Inflight {
    // Whether what was kept of an identifier is in use. Mostly nothing was kept.
    #[inline(always)]
    fn is_busy(&self, old: Option<Entry>) -> bool
        ensures { result ≡ is_some_and (is_taken (passed_since self.now.fate self.now.bounds self.now.opened self.now.bounded)) old }
    {
        match old {
            Some(entry) => self.is_still_taken(entry),
            None => false,
        }
    }

    // Whether what was kept is in use. It is a function of its own, since mostly nothing was kept.
    #[inline(never)]
    fn is_still_taken(&self, entry: Entry) -> bool
        ensures { result ≡ is_taken (passed_since self.now.fate self.now.bounds self.now.opened self.now.bounded) entry }
    {
        let since = since_now(self.fate, self.bounds, self.opened, self.bounded);
        held(&entry, since)
    }

    // Takes in what an event of a connection that is accepted does to identifiers. The answer is
    // what was kept of the one that it opens.
    #[inline(always)]
    fn shift(
        &mut self,
        at: Place3,
        opener: Option<u16>,
        exactly_once: bool,
        closer: Option<u16>,
        pubrel: Option<u16>,
        pubrec: Option<u16>,
    ) -> Result<Option<Entry>, Memory>
        ensures moved { OnOk result (IsMoved at opener exactly_once closer pubrel pubrec self.old self.new) }
        ensures old { (i : ℕ) → opener ≡ Some i → closer ≡ None → pubrel ≡ None → pubrec ≡ None → IfOk result (λ old. old ≡ value_under self.old.entries i) }
    {
        let late = confirms_late(&self.entries, self.opened, pubrec);
        self.again = Resent {
            all: self.again.all && !late,
            confirmed: self.again.confirmed && !late,
        };
        self.in_flight = flown_by(
            may_count(self.role, self.peer),
            opener.is_some(),
            closer.is_some(),
            self.in_flight,
            at.position,
        );
        release(&mut self.entries, pubrel, self.bounded, at.position);
        confirm(&mut self.entries, pubrec);
        close(&mut self.entries, closer);
        let old = open_new(&mut self.entries, opener, exactly_once, false, at)?;
        remove(&mut self.stray, closer);
        move_unanswered(&mut self.unanswered, self.fate, opener, closer, pubrel)?;
        Ok(old)
    }

    // Takes in a new PUBLISH under an identifier.
    #[inline(never)]
    fn open(
        &mut self,
        at: Place3,
        i: u16,
        exactly_once: bool,
        faults: &mut Faults,
    ) -> Result<(), Memory>
        ensures ok { accepts self.old.fate ≡ true → OnOk result ((n : TheNote) (tested : Tested) (taken : Option TheFate) (past : List Seen) → Moves n (Some i) exactly_once None None None → Follows tested (seen at n) past → IsKnown tested taken (seen at n) past → IsUsing self.old tested taken past → IsStep at n self.new tested past faults.old faults.new) }
        ensures memory { accepts self.old.fate ≡ true → OnErr result ((n : TheNote) (tested : Tested) (taken : Option TheFate) (past : List Seen) → Moves n (Some i) exactly_once None None None → Follows tested (seen at n) past → IsKnown tested taken (seen at n) past → IsUsing self.old tested taken past → IsWithin at n tested past faults.old faults.new) }
    {
        let awaited = is_awaited(&self.subscribing, &self.unsubscribing, i);
        let old = self.shift(at, Some(i), exactly_once, None, None, None)?;
        let busy = self.is_busy(old);
        judge_by(Rule::S01, either(busy, awaited), at, at.position, faults)?;
        Ok(())
    }

    // Takes in that an identifier is set free.
    #[inline(never)]
    fn set_free(&mut self, at: Place3, i: u16) -> Result<(), Memory>
        ensures { accepts self.old.fate ≡ true → OnOk result ((n : TheNote) (tested : Tested) (taken : Option TheFate) (past : List Seen) (m : FaultMap) → Moves n None false (Some i) None None → Follows tested (seen at n) past → IsKnown tested taken (seen at n) past → IsUsing self.old tested taken past → IsStep at n self.new tested past m m) }
    {
        self.shift(at, None, false, Some(i), None, None)?;
        Ok(())
    }

    // Takes in that a PUBREL is sent under an identifier.
    #[inline(never)]
    fn send_pubrel(&mut self, at: Place3, i: u16) -> Result<(), Memory>
        ensures { accepts self.old.fate ≡ true → OnOk result ((n : TheNote) (tested : Tested) (taken : Option TheFate) (past : List Seen) (m : FaultMap) → Moves n None false None (Some i) None → Follows tested (seen at n) past → IsKnown tested taken (seen at n) past → IsUsing self.old tested taken past → IsStep at n self.new tested past m m) }
    {
        self.shift(at, None, false, None, Some(i), None)?;
        Ok(())
    }

    // Takes in a PUBREC that is received: from 0x80 on it sets its identifier free.
    #[inline(never)]
    fn take_pubrec(&mut self, at: Place3, i: u16, code: u8) -> Result<(), Memory>
        ensures { accepts self.old.fate ≡ true → OnOk result ((n : TheNote) (tested : Tested) (taken : Option TheFate) (past : List Seen) (m : FaultMap) → Moves n None false (only (refuses code) (Some i)) None (only (not (refuses code)) (Some i)) → Follows tested (seen at n) past → IsKnown tested taken (seen at n) past → IsUsing self.old tested taken past → IsStep at n self.new tested past m m) }
    {
        if code < 0x80 {
            self.receive_pubrec(at, i)?;
            return Ok(());
        }
        self.set_free(at, i)?;
        Ok(())
    }

    // Takes in that a PUBREC below 0x80 is received under an identifier.
    #[inline(never)]
    fn receive_pubrec(&mut self, at: Place3, i: u16) -> Result<(), Memory>
        ensures { accepts self.old.fate ≡ true → OnOk result ((n : TheNote) (tested : Tested) (taken : Option TheFate) (past : List Seen) (m : FaultMap) → Moves n None false None None (Some i) → Follows tested (seen at n) past → IsKnown tested taken (seen at n) past → IsUsing self.old tested taken past → IsStep at n self.new tested past m m) }
    {
        self.shift(at, None, false, None, None, Some(i))?;
        Ok(())
    }
}

impl Inflight {
    // Takes in a bare packet by a note, in a call of its own.
    #[inline(never)]
    fn take_by_note(
        &mut self,
        at: Place3,
        bare: Bare<'_>,
        faults: &mut Faults,
    ) -> Result<(), Memory>
        ensures agrees { OnOk result ((tested : Tested) (taken : Option TheFate) (past : List Seen) → Follows tested (seen at (note_of_bare bare.entry)) past → IsKnown tested taken (seen at (note_of_bare bare.entry)) past → ⟦<Inflight as Fated>⟧.agrees self.old tested taken past → ⟦<Inflight as Fated>⟧.agrees self.new tested (latest_fate tested.role (seen at (note_of_bare bare.entry) ∷ past)) (seen at (note_of_bare bare.entry) ∷ past)) }
        ensures grows { OnOk result ((tested : Tested) (taken : Option TheFate) (past : List Seen) → Follows tested (seen at (note_of_bare bare.entry)) past → IsKnown tested taken (seen at (note_of_bare bare.entry)) past → ⟦<Inflight as Fated>⟧.agrees self.old tested taken past → Gains (λ k r. ⟦<Inflight as Fated>⟧.judges r && turns_known tested (seen at (note_of_bare bare.entry)) past k r) tested (seen at (note_of_bare bare.entry) ∷ past) (length past + 1) faults.old faults.new) }
        ensures memory { OnErr result ((tested : Tested) (taken : Option TheFate) (past : List Seen) → Follows tested (seen at (note_of_bare bare.entry)) past → IsKnown tested taken (seen at (note_of_bare bare.entry)) past → ⟦<Inflight as Fated>⟧.agrees self.old tested taken past → GainsWithin (λ k r. ⟦<Inflight as Fated>⟧.judges r && turns_known tested (seen at (note_of_bare bare.entry)) past k r) tested (seen at (note_of_bare bare.entry) ∷ past) (length past + 1) faults.old faults.new) }
    {
        let note = bare.note();
        let fate = self.fate;
        self.take_noted(at, at.position, fate, &note, faults)?;
        Ok(())
    }

    // The same, inlined: what is handed to that call then lies in memory on the way to it alone.
    #[inline(always)]
    fn take_apart(&mut self, at: Place3, bare: Bare<'_>, faults: &mut Faults) -> Result<(), Memory>
        ensures agrees { OnOk result ((tested : Tested) (taken : Option TheFate) (past : List Seen) → Follows tested (seen at (note_of_bare bare.entry)) past → IsKnown tested taken (seen at (note_of_bare bare.entry)) past → ⟦<Inflight as Fated>⟧.agrees self.old tested taken past → ⟦<Inflight as Fated>⟧.agrees self.new tested (latest_fate tested.role (seen at (note_of_bare bare.entry) ∷ past)) (seen at (note_of_bare bare.entry) ∷ past)) }
        ensures grows { OnOk result ((tested : Tested) (taken : Option TheFate) (past : List Seen) → Follows tested (seen at (note_of_bare bare.entry)) past → IsKnown tested taken (seen at (note_of_bare bare.entry)) past → ⟦<Inflight as Fated>⟧.agrees self.old tested taken past → Gains (λ k r. ⟦<Inflight as Fated>⟧.judges r && turns_known tested (seen at (note_of_bare bare.entry)) past k r) tested (seen at (note_of_bare bare.entry) ∷ past) (length past + 1) faults.old faults.new) }
        ensures memory { OnErr result ((tested : Tested) (taken : Option TheFate) (past : List Seen) → Follows tested (seen at (note_of_bare bare.entry)) past → IsKnown tested taken (seen at (note_of_bare bare.entry)) past → ⟦<Inflight as Fated>⟧.agrees self.old tested taken past → GainsWithin (λ k r. ⟦<Inflight as Fated>⟧.judges r && turns_known tested (seen at (note_of_bare bare.entry)) past k r) tested (seen at (note_of_bare bare.entry) ∷ past) (length past + 1) faults.old faults.new) }
    {
        self.take_by_note(at, bare, faults)
    }

    // Takes in a bare packet that is sent on a connection that is accepted.
    #[inline(always)]
    fn take_sent(&mut self, at: Place3, bare: Bare<'_>, faults: &mut Faults) -> Result<(), Memory>
        ensures agrees { accepts self.old.fate ≡ true → bare.entry.direction ≡ directions.Sent → OnOk result ((tested : Tested) (taken : Option TheFate) (past : List Seen) → Follows tested (seen at (note_of_bare bare.entry)) past → IsKnown tested taken (seen at (note_of_bare bare.entry)) past → IsUsing self.old tested taken past → IsStep at (note_of_bare bare.entry) self.new tested past faults.old faults.new) }
        ensures memory { accepts self.old.fate ≡ true → bare.entry.direction ≡ directions.Sent → OnErr result ((tested : Tested) (taken : Option TheFate) (past : List Seen) → Follows tested (seen at (note_of_bare bare.entry)) past → IsKnown tested taken (seen at (note_of_bare bare.entry)) past → IsUsing self.old tested taken past → IsWithin at (note_of_bare bare.entry) tested past faults.old faults.new) }
    {
        match bare.fields {
            BareFields::Publish {
                identifier,
                qos,
                duplicate,
                ..
            } => match opened_by(identifier, qos, duplicate) {
                Some(i) => {
                    self.open(at, i, is_exactly_once(qos), faults)?;
                    Ok(())
                }
                None => self.take_apart(at, bare, faults),
            },
            BareFields::Pubrel { identifier, .. } => {
                self.send_pubrel(at, identifier)?;
                Ok(())
            }
            _ => self.take_apart(at, bare, faults),
        }
    }

    // Takes in one that is received.
    #[inline(always)]
    fn take_received(
        &mut self,
        at: Place3,
        bare: Bare<'_>,
        faults: &mut Faults,
    ) -> Result<(), Memory>
        ensures agrees { accepts self.old.fate ≡ true → bare.entry.direction ≡ directions.Recv → OnOk result ((tested : Tested) (taken : Option TheFate) (past : List Seen) → Follows tested (seen at (note_of_bare bare.entry)) past → IsKnown tested taken (seen at (note_of_bare bare.entry)) past → IsUsing self.old tested taken past → IsStep at (note_of_bare bare.entry) self.new tested past faults.old faults.new) }
        ensures memory { accepts self.old.fate ≡ true → bare.entry.direction ≡ directions.Recv → OnErr result ((tested : Tested) (taken : Option TheFate) (past : List Seen) → Follows tested (seen at (note_of_bare bare.entry)) past → IsKnown tested taken (seen at (note_of_bare bare.entry)) past → IsUsing self.old tested taken past → IsWithin at (note_of_bare bare.entry) tested past faults.old faults.new) }
    {
        match bare.fields {
            BareFields::Puback { identifier, .. } => {
                self.set_free(at, identifier)?;
                Ok(())
            }
            BareFields::Pubcomp { identifier, .. } => {
                self.set_free(at, identifier)?;
                Ok(())
            }
            BareFields::Pubrec { identifier, code } => {
                self.take_pubrec(at, identifier, code)?;
                Ok(())
            }
            _ => self.take_apart(at, bare, faults),
        }
    }
}

impl Inflight {
    /// Takes in a bare packet of a connection that was decided before it.
    #[inline(always)]
    pub(super) fn take_bare(
        &mut self,
        at: Place3,
        bare: Bare<'_>,
        faults: &mut Faults,
    ) -> Result<(), Memory>
        ensures agrees { OnOk result ((tested : Tested) (taken : Option TheFate) (past : List Seen) → Follows tested (seen at (note_of_bare bare.entry)) past → IsKnown tested taken (seen at (note_of_bare bare.entry)) past → ⟦<Inflight as Fated>⟧.agrees self.old tested taken past → ⟦<Inflight as Fated>⟧.agrees self.new tested (latest_fate tested.role (seen at (note_of_bare bare.entry) ∷ past)) (seen at (note_of_bare bare.entry) ∷ past)) }
        ensures grows { OnOk result ((tested : Tested) (taken : Option TheFate) (past : List Seen) → Follows tested (seen at (note_of_bare bare.entry)) past → IsKnown tested taken (seen at (note_of_bare bare.entry)) past → ⟦<Inflight as Fated>⟧.agrees self.old tested taken past → Gains (λ k r. ⟦<Inflight as Fated>⟧.judges r && turns_known tested (seen at (note_of_bare bare.entry)) past k r) tested (seen at (note_of_bare bare.entry) ∷ past) (length past + 1) faults.old faults.new) }
        ensures memory { OnErr result ((tested : Tested) (taken : Option TheFate) (past : List Seen) → Follows tested (seen at (note_of_bare bare.entry)) past → IsKnown tested taken (seen at (note_of_bare bare.entry)) past → ⟦<Inflight as Fated>⟧.agrees self.old tested taken past → GainsWithin (λ k r. ⟦<Inflight as Fated>⟧.judges r && turns_known tested (seen at (note_of_bare bare.entry)) past k r) tested (seen at (note_of_bare bare.entry) ∷ past) (length past + 1) faults.old faults.new) }
    {
        if !self.fate.accepts() {
            self.take_apart(at, bare, faults)?;
            return Ok(());
        }
        match bare.direction {
            Direction::Sent => self.take_sent(at, bare, faults),
            Direction::Recv => self.take_received(at, bare, faults),
        }
    }
}
