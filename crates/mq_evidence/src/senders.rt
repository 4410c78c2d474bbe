//! What the tested end sends under a Packet Identifier (MQTT 5.0, sections 2.2.1 and 4.4): the
//! evidence of S01 to S04.
ghost use Rattle.std.specs.Prelude.{◌≡◌, [], List, true, OnOk, is_some, cond, option_map};
ghost use Rattle.mq_rules.specs.Words.{only};
ghost use Rattle.mq_rules.specs.Notes.{opener_of, closer_of, delivery_of, sent_as, received_as, pubrel_in, subscribe_in, suback_in, unsubscribe_in, unsuback_in};
ghost use Rattle.mq_rules.specs.Moments.{Moment, position, latest};
ghost use Rattle.mq_evidence.specs.Evidence.{some_session, later as later_of};
ghost use Rattle.mq_evidence.specs.Stretches.{Stretches, Comes, advanced, longer, nothing_yet, has_id, unended};
ghost use Rattle.mq_evidence.specs.Senders.{IsSenders, IsSentInSession, IsSentOnConnection};

use crate::passing::passes_asking;
use crate::tables::{keep_earlier, keep_latest, later, only_among, position_of};
use crate::turn::Turn;
use mq_rules::{ByIdentifier, Memory, Note};
use std::alloc::Global;

/// What was sent in the session, and what set it free, by Packet Identifiers.
#[derive(Drop)]
pub struct SentInSession {
    alloc: Global,
    /// The latest new PUBLISH.
    openers: ByIdentifier<u32>,
    /// The latest new PUBLISH, if nothing set its identifier free after it.
    held: ByIdentifier<u32>,
    /// What set the identifier free last.
    closers: ByIdentifier<u32>,
    /// The latest PUBREL.
    pubrels: ByIdentifier<u32>,
}

/// What was sent on the connection, by Packet Identifiers.
#[derive(Drop)]
pub struct SentOnConnection {
    alloc: Global,
    /// The latest PUBLISH of QoS 1 or 2, new or sent again.
    deliveries: ByIdentifier<u32>,
    /// The latest SUBSCRIBE, if no SUBACK came after it.
    subscribes: ByIdentifier<u32>,
    /// The latest UNSUBSCRIBE, if no UNSUBACK came after it.
    unsubscribes: ByIdentifier<u32>,
}

/// What the tested end sends under Packet Identifiers.
#[derive(Drop)]
pub struct Senders {
    in_session: SentInSession,
    on_connection: SentOnConnection,
    /// The identifiers of new PUBLISHes in earlier sessions.
    earlier: ByIdentifier<()>,
}

impl SentInSession {
    // Nothing was sent.
    fn new(alloc: Global) -> Self
        ensures { IsSentInSession result [] }
    {
        SentInSession {
            alloc,
            openers: ByIdentifier::new(alloc),
            held: ByIdentifier::new(alloc),
            closers: ByIdentifier::new(alloc),
            pubrels: ByIdentifier::new(alloc),
        }
    }

    // Takes in the next event.
    fn take(&mut self, turn: Turn, note: &Note) -> Result<(), Memory>
        ensures { OnOk result ((m : Moment) (ms : List Moment) → Comes turn note.now m → IsSentInSession self.old ms → IsSentInSession self.new (longer turn.begins turn.inside m ms)) }
    {
        let opener = note.opener();
        let closer = note.closer();
        let pubrel = note.sent_pubrel();
        keep_latest(
            &mut self.openers,
            self.alloc,
            turn.begins,
            turn.inside,
            opener,
            None,
            turn.position,
        )?;
        keep_latest(
            &mut self.held,
            self.alloc,
            turn.begins,
            turn.inside,
            opener,
            closer,
            turn.position,
        )?;
        keep_latest(
            &mut self.closers,
            self.alloc,
            turn.begins,
            turn.inside,
            closer,
            None,
            turn.position,
        )?;
        keep_latest(
            &mut self.pubrels,
            self.alloc,
            turn.begins,
            turn.inside,
            pubrel,
            None,
            turn.position,
        )?;
        Ok(())
    }
}

impl SentOnConnection {
    // Nothing was sent.
    fn new(alloc: Global) -> Self
        ensures { IsSentOnConnection result [] }
    {
        SentOnConnection {
            alloc,
            deliveries: ByIdentifier::new(alloc),
            subscribes: ByIdentifier::new(alloc),
            unsubscribes: ByIdentifier::new(alloc),
        }
    }

    // Takes in the next event.
    fn take(&mut self, turn: Turn, note: &Note) -> Result<(), Memory>
        ensures { OnOk result ((m : Moment) (ms : List Moment) → Comes turn note.now m → IsSentOnConnection self.old ms → IsSentOnConnection self.new (longer turn.opens true m ms)) }
    {
        let delivery = note.delivery();
        let subscribe = note.sent_subscribe();
        let suback = note.received_suback();
        let unsubscribe = note.sent_unsubscribe();
        let unsuback = note.received_unsuback();
        keep_latest(
            &mut self.deliveries,
            self.alloc,
            turn.opens,
            true,
            delivery,
            None,
            turn.position,
        )?;
        keep_latest(
            &mut self.subscribes,
            self.alloc,
            turn.opens,
            true,
            subscribe,
            suback,
            turn.position,
        )?;
        keep_latest(
            &mut self.unsubscribes,
            self.alloc,
            turn.opens,
            true,
            unsubscribe,
            unsuback,
            turn.position,
        )?;
        Ok(())
    }
}

impl Senders {
    /// Nothing was sent.
    pub fn new(alloc: Global) -> Self
        ensures { IsSenders result nothing_yet }
    {
        Senders {
            in_session: SentInSession::new(alloc),
            on_connection: SentOnConnection::new(alloc),
            earlier: ByIdentifier::new(alloc),
        }
    }

    /// Takes in the next event.
    ///
    /// # Errors
    ///
    /// `Memory` if there is no memory for what it keeps. Its state is then of no use.
    pub fn take(&mut self, turn: Turn, note: &Note) -> Result<(), Memory>
        ensures { OnOk result ((m : Moment) (s : Stretches) → Comes turn note.now m → IsSenders self.old s → IsSenders self.new (advanced turn m s)) }
    {
        if passes_asking(turn, note) {
            return Ok(());
        }
        keep_earlier(&mut self.earlier, turn.begins, &self.in_session.openers)?;
        self.in_session.take(turn, note)?;
        self.on_connection.take(turn, note)?;
        Ok(())
    }

    /// What holds an identifier: the PUBLISH that opened it, a SUBSCRIBE or an UNSUBSCRIBE, of
    /// these the latest.
    pub fn holder(&self, i: u16) -> Option<u32>
        ensures { (s : Stretches) → IsSenders self.now s → result ≡ option_map position (later_of (unended (has_id opener_of i) (has_id closer_of i) s.session)
            (later_of (unended (has_id (sent_as subscribe_in) i) (has_id (received_as suback_in) i) s.connection) (unended (has_id (sent_as unsubscribe_in) i) (has_id (received_as unsuback_in) i) s.connection))) }
    {
        let waiting = later(
            position_of(&self.on_connection.subscribes, i),
            position_of(&self.on_connection.unsubscribes, i),
        );
        later(position_of(&self.in_session.held, i), waiting)
    }

    /// What became of a PUBLISH that is sent again under an identifier: what acknowledged it last
    /// in this session, if it was sent in it; else, if it was sent in an earlier one, the CONNACK
    /// that began this one, which is at `begun`.
    pub fn end_of_sent(&self, begun: Option<u32>, i: u16) -> Option<u32>
        ensures { (s : Stretches) → IsSenders self.now s → result ≡ cond (is_some (latest (has_id opener_of i) s.session)) (option_map position (latest (has_id closer_of i) s.session))
            (only (some_session (has_id opener_of i) s.earlier) begun) }
    {
        if self.in_session.openers.contains(i) {
            return position_of(&self.in_session.closers, i);
        }
        only_among(&self.earlier, i, begun)
    }

    /// The PUBLISH that opened an identifier in the session, if that is open.
    pub fn held(&self, i: u16) -> Option<u32>
        ensures { (s : Stretches) → IsSenders self.now s → result ≡ option_map position (unended (has_id opener_of i) (has_id closer_of i) s.session) }
    {
        position_of(&self.in_session.held, i)
    }

    /// The PUBLISH that opened an identifier last in the session.
    pub fn opener(&self, i: u16) -> Option<u32>
        ensures { (s : Stretches) → IsSenders self.now s → result ≡ option_map position (latest (has_id opener_of i) s.session) }
    {
        position_of(&self.in_session.openers, i)
    }

    /// The latest PUBLISH under an identifier on the connection.
    pub fn delivery(&self, i: u16) -> Option<u32>
        ensures { (s : Stretches) → IsSenders self.now s → result ≡ option_map position (latest (has_id delivery_of i) s.connection) }
    {
        position_of(&self.on_connection.deliveries, i)
    }

    /// The latest PUBREL under an identifier in the session.
    pub fn pubrel(&self, i: u16) -> Option<u32>
        ensures { (s : Stretches) → IsSenders self.now s → result ≡ option_map position (latest (has_id (sent_as pubrel_in) i) s.session) }
    {
        position_of(&self.in_session.pubrels, i)
    }
}
