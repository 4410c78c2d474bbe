//! Bare packets, taken in by their numbers (MQTT 5.0, section 4.3.3): a QoS 2 PUBLISH
//! that is received, and the PUBREC and the PUBCOMP that are sent for one.
ghost use Rattle.std.specs.Prelude.{◌≡◌, ◌∷◌, ◌+◌, ◌&&◌, ◌==◌, length, List, Option, OnOk, OnErr, Some, None};
ghost use Rattle.mq_rules.specs.declared.role.Tested.{Tested};
ghost use Rattle.mq_rules.specs.declared.fate.Fate.{Fate as TheFate};
ghost use Rattle.mq_rules.specs.declared.note.Note.{Note as TheNote};
ghost use Rattle.mq_rules.specs.declared.note.Seen.{Seen};
ghost use Rattle.mq_rules.specs.FaultKeys.{FaultMap};
ghost use Rattle.mq_rules.specs.Connections.{latest_fate};
ghost use Rattle.mq_rules.specs.Under.{seen, Follows, IsKnown, turns_known};
ghost use Rattle.mq_rules.specs.Growing.{Gains, GainsWithin};
ghost use Rattle.mq_rules.specs.Notes.{note_of_bare, refuses, is_exactly_once};
ghost use Rattle.mq_rules.specs.Words.{only};
ghost use Rattle.mq_exchanges.specs.Receiving.{Receives, IsReceived, IsStep, IsWithin, IsLedTo};

use super::{Releases, is_unreleased, lasting, revise, revise_due};
use mq_fates::{Fated, judge_by};
use mq_log::{Direction, Place3};
use mq_packet::Qos;
use mq_rules::{Bare, BareFields, Faults, Memory, Rule};

// The identifier that a PUBLISH brings a message under: its QoS is 2.
#[inline(always)]
fn brought_by(identifier: Option<u16>, qos: Qos) -> Option<u16>
    ensures { result ≡ only (is_exactly_once qos) identifier }
{
    match qos {
        Qos::ExactlyOnce => identifier,
        _ => None,
    }
}

// The identifier of a PUBREC of 0x10, No matching subscribers.
#[inline(always)]
fn unmatched_by(i: u16, code: u8) -> Option<u16>
    ensures { result ≡ only (code == 16) (Some i) }
{
    if code == 0x10 { Some(i) } else { None }
}

// The identifier of a PUBREC that ends its exchange.
#[inline(always)]
fn refused_by(i: u16, code: u8) -> Option<u16>
    ensures { result ≡ only (refuses code) (Some i) }
{
    if code < 0x80 { None } else { Some(i) }
}

// The identifier of a PUBCOMP of 0x00.
#[inline(always)]
fn completed_by(i: u16, code: u8) -> Option<u16>
    ensures { result ≡ only (code == 0) (Some i) }
{
    if code == 0 { Some(i) } else { None }
}

impl Releases {
    // Takes in what a packet of the latest connection does to messages that can't expire.
    #[inline(always)]
    fn take(
        &mut self,
        brings: Option<u16>,
        unmatched: Option<u16>,
        ender: Option<u16>,
    ) -> Result<(), Memory>
        ensures { OnOk result (IsReceived brings unmatched ender self.old self.new) }
    {
        let inside = self.fate.accepts();
        let lasts = lasting(brings, false, &self.brought);
        revise_due(&mut self.due, false, inside, unmatched, lasts, ender)?;
        revise(&mut self.brought, false, inside, brings, ender)?;
        revise(&mut self.released, false, inside, None, ender)?;
        Ok(())
    }

    // Takes in a QoS 2 PUBLISH that is received.
    #[inline(never)]
    fn receive(&mut self, i: u16) -> Result<(), Memory>
        ensures { OnOk result ((e : Seen) (tested : Tested) (taken : Option TheFate) (past : List Seen) (m : FaultMap) → Receives e.note (Some i) None None None → Follows tested e past → IsKnown tested taken e past → IsLedTo self.old tested taken past → IsStep e self.new tested past m m) }
    {
        self.take(Some(i), None, None)?;
        Ok(())
    }

    // Takes in a PUBREC that is sent.
    #[inline(never)]
    fn send_pubrec(&mut self, i: u16, code: u8) -> Result<(), Memory>
        ensures { OnOk result ((e : Seen) (tested : Tested) (taken : Option TheFate) (past : List Seen) (m : FaultMap) → Receives e.note None (only (code == 16) (Some i)) (only (refuses code) (Some i)) None → Follows tested e past → IsKnown tested taken e past → IsLedTo self.old tested taken past → IsStep e self.new tested past m m) }
    {
        self.take(None, unmatched_by(i, code), refused_by(i, code))?;
        Ok(())
    }

    // Takes in a PUBCOMP that is sent.
    #[inline(never)]
    fn send_pubcomp(
        &mut self,
        at: Place3,
        i: u16,
        code: u8,
        faults: &mut Faults,
    ) -> Result<(), Memory>
        ensures ok { OnOk result ((n : TheNote) (tested : Tested) (taken : Option TheFate) (past : List Seen) → Receives n None None (Some i) (only (code == 0) (Some i)) → Follows tested (seen at n) past → IsKnown tested taken (seen at n) past → IsLedTo self.old tested taken past → IsStep (seen at n) self.new tested past faults.old faults.new) }
        ensures memory { OnErr result ((n : TheNote) (tested : Tested) (taken : Option TheFate) (past : List Seen) → Receives n None None (Some i) (only (code == 0) (Some i)) → Follows tested (seen at n) past → IsKnown tested taken (seen at n) past → IsLedTo self.old tested taken past → IsWithin (seen at n) tested past faults.old faults.new) }
    {
        let completed = completed_by(i, code);
        let unreleased = is_unreleased(
            self.releases,
            self.fate,
            completed,
            &self.released,
            &self.due,
        );
        self.take(None, None, Some(i))?;
        judge_by(Rule::L3, unreleased, at, at.position, faults)?;
        Ok(())
    }
}

impl Releases {
    /// Takes in a bare packet of a connection that was decided before it.
    #[inline(always)]
    pub(super) fn take_bare(
        &mut self,
        at: Place3,
        bare: Bare<'_>,
        faults: &mut Faults,
    ) -> Result<(), Memory>
        ensures agrees { OnOk result ((tested : Tested) (taken : Option TheFate) (past : List Seen) → Follows tested (seen at (note_of_bare bare.entry)) past → IsKnown tested taken (seen at (note_of_bare bare.entry)) past → ⟦<Releases as Fated>⟧.agrees self.old tested taken past → ⟦<Releases as Fated>⟧.agrees self.new tested (latest_fate tested.role (seen at (note_of_bare bare.entry) ∷ past)) (seen at (note_of_bare bare.entry) ∷ past)) }
        ensures grows { OnOk result ((tested : Tested) (taken : Option TheFate) (past : List Seen) → Follows tested (seen at (note_of_bare bare.entry)) past → IsKnown tested taken (seen at (note_of_bare bare.entry)) past → ⟦<Releases as Fated>⟧.agrees self.old tested taken past → Gains (λ k r. ⟦<Releases as Fated>⟧.judges r && turns_known tested (seen at (note_of_bare bare.entry)) past k r) tested (seen at (note_of_bare bare.entry) ∷ past) (length past + 1) faults.old faults.new) }
        ensures memory { OnErr result ((tested : Tested) (taken : Option TheFate) (past : List Seen) → Follows tested (seen at (note_of_bare bare.entry)) past → IsKnown tested taken (seen at (note_of_bare bare.entry)) past → ⟦<Releases as Fated>⟧.agrees self.old tested taken past → GainsWithin (λ k r. ⟦<Releases as Fated>⟧.judges r && turns_known tested (seen at (note_of_bare bare.entry)) past k r) tested (seen at (note_of_bare bare.entry) ∷ past) (length past + 1) faults.old faults.new) }
    {
        match bare.direction {
            Direction::Sent => match bare.fields {
                BareFields::Pubrec { identifier, code } => {
                    self.send_pubrec(identifier, code)?;
                    Ok(())
                }
                BareFields::Pubcomp { identifier, code } => {
                    self.send_pubcomp(at, identifier, code, faults)?;
                    Ok(())
                }
                _ => Ok(()),
            },
            Direction::Recv => match bare.fields {
                BareFields::Publish {
                    identifier,
                    qos,
                    ..
                } => match brought_by(identifier, qos) {
                    Some(i) => {
                        self.receive(i)?;
                        Ok(())
                    }
                    None => Ok(()),
                },
                _ => Ok(()),
            },
        }
    }
}
