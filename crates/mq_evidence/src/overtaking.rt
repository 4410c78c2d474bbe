//! PUBLISHes that are sent again out of order (MQTT 5.0, section 4.6): the evidence of S05.
ghost use Rattle.std.specs.Prelude.{◌≡◌, ℕ, ◌-◌, Option, List, [], ◌∷◌, ◌++◌, length, Some, OnOk, option_map};
ghost use Rattle.std.specs.List.{find, slice_get};
ghost use Rattle.std.specs.List.Sorted.{IsNonDecreasingBy};
ghost use Rattle.std.specs.Option.{option_and_then, option_or};
ghost use Rattle.mq_log.specs.declared.place.Place3.{Place3};
ghost use Rattle.mq_rules.specs.declared.role.Role.{Role as TheRole};
ghost use Rattle.mq_rules.specs.declared.role.Tested.{Tested};
ghost use Rattle.mq_rules.specs.declared.fate.Fate.{Fate as TheFate};
ghost use Rattle.mq_rules.specs.declared.note.Seen.{Seen};
ghost use Rattle.mq_rules.specs.Notes.{is_open as opens};
ghost use Rattle.mq_rules.specs.Moments.{Moment, newest, position as place_of};
ghost use Rattle.mq_rules.specs.Connections.{session};
ghost use Rattle.mq_rules.specs.Under.{seen, fate_before};
ghost use Rattle.mq_rules.specs.Identifiers.{latest_opener};
ghost use Rattle.mq_evidence.specs.Evidence.{it_with, two_of, first_overtaking, first_sent_at};
ghost use Rattle.mq_evidence.specs.Stretches.{Comes};
ghost use Rattle.mq_evidence.specs.Overtaking.{IsOvertaking, opened_under, is_above, is_later, later_one, by_resend};

use crate::turn::Turn;
use mq_rules::{Evidence, Memory, Note, Numbers};
use std::alloc::Global;

// No event is to blame.
const NOTHING: Evidence = Evidence {
    because: None,
    numbers: Numbers::Nothing,
};

/// A PUBLISH that is sent again.
#[derive(Clone, Copy)]
pub struct Resend {
    /// Its position.
    position: u32,
    /// Where it was first sent.
    opened: u32,
}

/// PUBLISHes that were sent again on the connection while they were open. Of these it keeps each
/// one that was first sent later than all before it.
#[derive(Drop)]
pub struct Overtaking {
    alloc: Global,
    resends: Vec<Resend>,
}

// The first one that was first sent after a position.
fn first_after(resends: &[Resend], opened: u32) -> Option<Resend>
    ensures { IsNonDecreasingBy (λ r. r.opened) resends.now → result ≡ find (is_later opened) resends.now }
{
    let passed = resends.partition_point(|resend| resend.opened <= opened);
    resends.get(passed).copied()
}

// Whether a PUBLISH that was first sent there was first sent later than the last one that is kept.
fn is_last(resends: &[Resend], opened: u32) -> bool
    ensures { result ≡ is_above (slice_get resends.now (length resends.now - 1)) opened }
{
    match resends.last() {
        Some(last) => last.opened < opened,
        None => true,
    }
}

// Adds a PUBLISH that is sent again and was first sent there, if that is later than all before.
fn keep(resends: &mut Vec<Resend>, position: u32, opened: u32) -> Result<(), Memory>
    ensures rising { OnOk result (IsNonDecreasingBy (λ r. r.opened) resends.old.items → IsNonDecreasingBy (λ r. r.opened) resends.new.items) }
    ensures first { OnOk result ((n : ℕ) → find (is_later n) resends.new.items ≡ option_or (find (is_later n) resends.old.items) (later_one n position (Some opened))) }
{
    if !is_last(resends.as_slice(), opened) {
        return Ok(());
    }
    resends.push(Resend { position, opened })?;
    Ok(())
}

// The evidence by what was sent again too early, before a PUBLISH that was first sent there.
fn evidence_by(found: Option<Resend>, opened: u32) -> Evidence
    ensures { result ≡ by_resend found opened }
{
    match found {
        Some(other) => Evidence {
            because: Some(other.position),
            numbers: Numbers::Two(u64::from(other.opened), u64::from(opened)),
        },
        None => NOTHING,
    }
}

impl Overtaking {
    /// Nothing was sent again.
    pub fn new(alloc: Global) -> Self
        ensures { (role : TheRole) (taken : Option TheFate) → IsOvertaking result role taken [] }
    {
        Overtaking {
            alloc,
            resends: Vec::new(alloc),
        }
    }

    /// Takes in the next event. If it sends a PUBLISH again that is open, that was first sent at
    /// `opened`.
    ///
    /// # Errors
    ///
    /// `Memory` if there is no memory for what it keeps. Its state is then of no use.
    pub fn take(&mut self, turn: Turn, note: &Note, opened: Option<u32>) -> Result<(), Memory>
        ensures { OnOk result ((tested : Tested) (fate : TheFate) (at : Place3) (past : List Seen) → Comes turn note.now (newest (seen at note.now) past)
            → opened ≡ opened_under note.now (session tested.role (fate_before tested fate (seen at note.now) past) past)
            → IsOvertaking self.old tested.role (fate_before tested fate (seen at note.now) past) past → IsOvertaking self.new tested.role (Some fate) (seen at note.now ∷ past)) }
    {
        if note.is_open() {
            self.resends = Vec::new(self.alloc);
            return Ok(());
        }
        let Some(opened) = opened else {
            return Ok(());
        };
        keep(&mut self.resends, turn.position, opened)?;
        Ok(())
    }

    /// The first PUBLISH that was sent again too early, before one that was first sent at `opened`;
    /// where that was first sent, and where this one was.
    pub fn evidence(&self, opened: Option<u32>) -> Evidence
        ensures { (role : TheRole) (f : TheFate) (i : ℕ) (k : Moment) → IsOvertaking self.now role (Some f) k.past → opened ≡ option_map place_of (latest_opener role f i k)
            → result ≡ it_with (first_overtaking role f i k) (two_of (option_and_then (first_sent_at role f) (first_overtaking role f i k)) (option_map place_of (latest_opener role f i k))) }
    {
        let Some(opened) = opened else {
            return NOTHING;
        };
        evidence_by(first_after(self.resends.as_slice(), opened), opened)
    }
}
