//! What the tested end was asked for, and what it answered (MQTT 5.0, sections 3.8.4, 3.10.4 and
//! 4.3): the evidence of E1A to E6A.
ghost use Rattle.std.specs.Prelude.{◌≡◌, OnOk, option_map};
ghost use Rattle.std.specs.Option.{option_or};
ghost use Rattle.mq_rules.specs.Words.{only};
ghost use Rattle.mq_rules.specs.Notes.{received_as};
ghost use Rattle.mq_rules.specs.Exchanges as exchanges;
ghost use Rattle.mq_rules.specs.Moments.{Moment, position, some, latest};
ghost use Rattle.mq_evidence.specs.Evidence.{some_session, refusing_pubrec_in, later as later_of};
ghost use Rattle.mq_evidence.specs.Stretches.{Stretches, Comes, advanced, nothing_yet, has_id};
ghost use Rattle.mq_evidence.specs.Exchange.{exchange_of};
ghost use Rattle.mq_evidence.specs.Asked.{IsAsked, IsConfirmed};

use crate::exchange::Exchange;
use crate::in_session::keep_in_session;
use crate::tables::{keep_earlier, keep_latest, later, only_among, position_of};
use crate::turn::Turn;
use mq_rules::{ByIdentifier, Memory, Note, PacketFields};
use std::alloc::Global;

/// The lowest Reason Code that refuses (MQTT 5.0, section 2.4).
const REFUSING: u8 = 0x80;

/// What the tested end was asked for by the causes of an exchange, and what it answered, by Packet
/// Identifiers.
#[derive(Drop)]
pub struct Asked {
    alloc: Global,
    exchange: Exchange,
    /// The latest cause in the session.
    causes: ByIdentifier<u32>,
    /// The latest answer on the connection.
    answers: ByIdentifier<u32>,
    /// The identifiers of causes in earlier sessions.
    earlier: ByIdentifier<()>,
}

/// What asked for a PUBREL, and what was answered; and what told the tested end to send none.
#[derive(Drop)]
pub struct Confirmed {
    alloc: Global,
    asked: Asked,
    /// The latest PUBREC of 0x80 or more in the session, by Packet Identifiers.
    refusals: ByIdentifier<u32>,
}

// The Packet Identifier of a PUBREC of 0x80 or more, which refuses the PUBLISH (MQTT 5.0, section
// 4.3.3).
fn refusing_pubrec(fields: &PacketFields) -> Option<u16>
    ensures { result ≡ refusing_pubrec_in fields.now }
{
    match fields {
        PacketFields::Pubrec { identifier, code } => (*code >= REFUSING).then_some(*identifier),
        _ => None,
    }
}

// The Packet Identifier of such a PUBREC that the tested end received.
fn received_refusal(note: &Note) -> Option<u16>
    ensures { result ≡ received_as refusing_pubrec_in note.now }
{
    refusing_pubrec(note.received_fields()?)
}

impl Asked {
    /// Nothing was asked for in this exchange.
    pub fn new(alloc: Global, exchange: Exchange) -> Self
        ensures { IsAsked (exchange_of exchange) result nothing_yet }
    {
        Asked {
            alloc,
            exchange,
            causes: ByIdentifier::new(alloc),
            answers: ByIdentifier::new(alloc),
            earlier: ByIdentifier::new(alloc),
        }
    }

    /// Takes in the next event.
    ///
    /// # Errors
    ///
    /// `Memory` if there is no memory for what it keeps. Its state is then of no use.
    pub fn take(&mut self, turn: Turn, note: &Note) -> Result<(), Memory>
        ensures { OnOk result ((x : exchanges.Exchange) (m : Moment) (s : Stretches) → Comes turn note.now m → IsAsked x self.old s → IsAsked x self.new (advanced turn m s)) }
    {
        let alloc = self.alloc;
        let cause = self.exchange.cause(note);
        let answer = self.exchange.answer(note);
        keep_earlier(&mut self.earlier, turn.begins, &self.causes)?;
        keep_in_session(&mut self.causes, alloc, turn, cause)?;
        keep_latest(
            &mut self.answers,
            alloc,
            turn.opens,
            true,
            answer,
            None,
            turn.position,
        )?;
        Ok(())
    }

    // The latest answer under an identifier on the connection, if it was asked for in the session.
    fn answered(&self, i: u16) -> Option<u32>
        ensures { (x : exchanges.Exchange) (s : Stretches) → IsAsked x self.now s → result ≡ option_map position (only (some (has_id x.cause i) s.session) (latest (has_id x.answer i) s.connection)) }
    {
        if self.causes.contains(i) {
            position_of(&self.answers, i)
        } else {
            None
        }
    }

    // The CONNACK that began the session, which is at `begun`, if an answer under an identifier was
    // asked for in an earlier one.
    fn ended_with_session(&self, begun: Option<u32>, i: u16) -> Option<u32>
        ensures { (x : exchanges.Exchange) (s : Stretches) → IsAsked x self.now s → result ≡ only (some_session (has_id x.cause i) s.earlier) begun }
    {
        only_among(&self.earlier, i, begun)
    }

    /// What became of what an answer under an identifier is sent for: the answer before on the
    /// connection, if it was asked for in this session; else, if it was asked for in an earlier
    /// one, the CONNACK that began this one, which is at `begun`.
    pub fn end_of_asked(&self, begun: Option<u32>, i: u16) -> Option<u32>
        ensures { (x : exchanges.Exchange) (s : Stretches) → IsAsked x self.now s → result ≡ option_or (option_map position (only (some (has_id x.cause i) s.session) (latest (has_id x.answer i) s.connection)))
            (only (some_session (has_id x.cause i) s.earlier) begun) }
    {
        let ended = self.ended_with_session(begun, i);
        self.answered(i).or(ended)
    }
}

impl Confirmed {
    /// Nothing asked for a PUBREL.
    pub fn new(alloc: Global) -> Self
        ensures { IsConfirmed result nothing_yet }
    {
        Confirmed {
            alloc,
            asked: Asked::new(alloc, Exchange::PubrecPubrel),
            refusals: ByIdentifier::new(alloc),
        }
    }

    /// Takes in the next event.
    ///
    /// # Errors
    ///
    /// `Memory` if there is no memory for what it keeps. Its state is then of no use.
    pub fn take(&mut self, turn: Turn, note: &Note) -> Result<(), Memory>
        ensures { OnOk result ((m : Moment) (s : Stretches) → Comes turn note.now m → IsConfirmed self.old s → IsConfirmed self.new (advanced turn m s)) }
    {
        let alloc = self.alloc;
        let refusal = received_refusal(note);
        self.asked.take(turn, note)?;
        keep_in_session(&mut self.refusals, alloc, turn, refusal)?;
        Ok(())
    }

    /// What became of what a PUBREL under an identifier is sent for: the PUBREL before on the
    /// connection, if it was asked for in this session, or a PUBREC of 0x80 or more in this
    /// session, if that came later; else, if it was asked for in an earlier one, the CONNACK that
    /// began this one, which is at `begun`.
    pub fn end_of_confirmed(&self, begun: Option<u32>, i: u16) -> Option<u32>
        ensures { (s : Stretches) → IsConfirmed self.now s → result ≡ option_or (option_map position (later_of (latest (has_id (received_as refusing_pubrec_in) i) s.session)
            (only (some (has_id exchanges.pubrec_pubrel.cause i) s.session) (latest (has_id exchanges.pubrec_pubrel.answer i) s.connection)))) (only (some_session (has_id exchanges.pubrec_pubrel.cause i) s.earlier) begun) }
    {
        let ended = self.asked.ended_with_session(begun, i);
        let answered = self.asked.answered(i);
        later(position_of(&self.refusals, i), answered).or(ended)
    }
}
