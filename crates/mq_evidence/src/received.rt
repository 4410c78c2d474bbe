//! What the tested end received and released of QoS 2 messages (MQTT 5.0, section 4.3.3): the
//! evidence of L1 to L3.
ghost use Rattle.std.specs.Prelude.{◌≡◌, [], List, OnOk, cond, option_map};
ghost use Rattle.mq_rules.specs.Words.{only};
ghost use Rattle.mq_rules.specs.Notes.{received_exactly_once, released_id, sent_as, ended_in};
ghost use Rattle.mq_rules.specs.Moments.{Moment, position, some, latest, earliest_since};
ghost use Rattle.mq_evidence.specs.Evidence.{some_session};
ghost use Rattle.mq_evidence.specs.Stretches.{Stretches, Comes, advanced, longer, nothing_yet, has_id};
ghost use Rattle.mq_evidence.specs.Received.{IsReceived, IsReceivedInSession};

use crate::in_session::keep_in_session;
use crate::passing::passes_asked;
use crate::tables::{keep_earlier, keep_earliest, only_among, position_of};
use crate::turn::Turn;
use mq_rules::{ByIdentifier, Memory, Note};
use std::alloc::Global;

/// What was received and released in the session, by Packet Identifiers.
#[derive(Drop)]
pub struct ReceivedInSession {
    alloc: Global,
    /// The latest PUBLISH of QoS 2.
    brought: ByIdentifier<u32>,
    /// The first PUBLISH of QoS 2 whose exchange hasn't ended since.
    firsts: ByIdentifier<u32>,
    /// What ended an exchange last: a PUBCOMP, or a PUBREC of 0x80 or more.
    enders: ByIdentifier<u32>,
    /// The latest RELEASE.
    releases: ByIdentifier<u32>,
}

/// What was received and released.
#[derive(Drop)]
pub struct Received {
    in_session: ReceivedInSession,
    /// The identifiers of PUBLISHes of QoS 2 in earlier sessions.
    earlier: ByIdentifier<()>,
}

impl ReceivedInSession {
    // Nothing was received.
    fn new(alloc: Global) -> Self
        ensures { IsReceivedInSession result [] }
    {
        ReceivedInSession {
            alloc,
            brought: ByIdentifier::new(alloc),
            firsts: ByIdentifier::new(alloc),
            enders: ByIdentifier::new(alloc),
            releases: ByIdentifier::new(alloc),
        }
    }

    // Takes in the next event.
    fn take(&mut self, turn: Turn, note: &Note) -> Result<(), Memory>
        ensures { OnOk result ((m : Moment) (ms : List Moment) → Comes turn note.now m → IsReceivedInSession self.old ms → IsReceivedInSession self.new (longer turn.begins turn.inside m ms)) }
    {
        let alloc = self.alloc;
        let brings = note.received_exactly_once();
        let ender = note.ender();
        let release = note.released_identifier();
        keep_in_session(&mut self.brought, alloc, turn, brings)?;
        keep_earliest(
            &mut self.firsts,
            alloc,
            turn.begins,
            turn.inside,
            brings,
            ender,
            turn.position,
        )?;
        keep_in_session(&mut self.enders, alloc, turn, ender)?;
        keep_in_session(&mut self.releases, alloc, turn, release)?;
        Ok(())
    }
}

impl Received {
    /// Nothing was received.
    pub fn new(alloc: Global) -> Self
        ensures { IsReceived result nothing_yet }
    {
        Received {
            in_session: ReceivedInSession::new(alloc),
            earlier: ByIdentifier::new(alloc),
        }
    }

    /// Takes in the next event.
    ///
    /// # Errors
    ///
    /// `Memory` if there is no memory for what it keeps. Its state is then of no use.
    pub fn take(&mut self, turn: Turn, note: &Note) -> Result<(), Memory>
        ensures { OnOk result ((m : Moment) (s : Stretches) → Comes turn note.now m → IsReceived self.old s → IsReceived self.new (advanced turn m s)) }
    {
        if passes_asked(turn, note) {
            return Ok(());
        }
        keep_earlier(&mut self.earlier, turn.begins, &self.in_session.brought)?;
        self.in_session.take(turn, note)?;
        Ok(())
    }

    /// What became of a message that is released under an identifier: what ended its exchange last
    /// in this session, if it was received in it; else, if it was received in an earlier one, the
    /// CONNACK that began this one, which is at `begun`.
    pub fn end_of_received(&self, begun: Option<u32>, i: u16) -> Option<u32>
        ensures { (s : Stretches) → IsReceived self.now s → result ≡ cond (some (has_id received_exactly_once i) s.session) (option_map position (latest (has_id (sent_as ended_in) i) s.session))
            (only (some_session (has_id received_exactly_once i) s.earlier) begun) }
    {
        if self.in_session.brought.contains(i) {
            return position_of(&self.in_session.enders, i);
        }
        only_among(&self.earlier, i, begun)
    }

    /// The latest RELEASE under an identifier in the session.
    pub fn release(&self, i: u16) -> Option<u32>
        ensures { (s : Stretches) → IsReceived self.now s → result ≡ option_map position (latest (has_id released_id i) s.session) }
    {
        position_of(&self.in_session.releases, i)
    }

    /// The first PUBLISH of QoS 2 under an identifier in the session whose exchange hasn't ended
    /// since.
    pub fn first_brought(&self, i: u16) -> Option<u32>
        ensures { (s : Stretches) → IsReceived self.now s → result ≡ option_map position (earliest_since (has_id received_exactly_once i) (has_id (sent_as ended_in) i) s.session) }
    {
        position_of(&self.in_session.firsts, i)
    }
}
