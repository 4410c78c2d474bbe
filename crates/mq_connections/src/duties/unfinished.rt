//! The Packet Identifiers of a client's QoS 2 messages that aren't finished, and which PUBLISH is
//! above the server's Receive Maximum by them.
ghost use Rattle.std.specs.Prelude.{◌≡◌, ◌||◌, ◌&&◌, ℕ, not, Option, OnOk, false};
ghost use Rattle.mq_rules.specs.Words.{is_id};
ghost use Rattle.mq_rules.specs.ReceiveMaximum.{receive_maximum_in};
ghost use Rattle.mq_connections.specs.Unfinished as keeping;
ghost use Rattle.mq_connections.specs.Unfinished.{has_identifier, kept_with, unfinished_weigh, UnfinishedNext};

use mq_rules::{ConnackNote, CountedByIdentifier, Memory, Note};
use std::alloc::Global;

/// The Receive Maximum of a server that announces none (MQTT 5.0, section 3.2.2.3.3).
const GREATEST_RECEIVE_MAXIMUM: u16 = 65_535;

/// What is kept of the connection that is open.
#[derive(Drop)]
pub struct Unfinished {
    /// The identifiers of the PUBLISHes of QoS 2 that were received, where since then neither a
    /// PUBREL was received, nor a PUBCOMP or a PUBREC of 0x80 or more sent.
    identifiers: CountedByIdentifier<()>,
}

impl Unfinished {
    /// What is kept before the first event.
    pub fn new(alloc: Global) -> Unfinished
        ensures { (i : ℕ) → has_identifier result i ≡ false }
    {
        Unfinished {
            identifiers: CountedByIdentifier::new(alloc),
        }
    }

    /// Whether with this event a PUBLISH of QoS 2 is received above the Receive Maximum, if the
    /// CONNACK before it announced that.
    pub fn finds_excess(&self, connack: Option<ConnackNote>, note: &Note) -> bool
        ensures { result ≡ keeping.finds_excess self.now connack note.now }
    {
        match note.received_exactly_once() {
            Some(identifier) => self.exceeds_with(connack, identifier),
            None => false,
        }
    }

    // Whether there are more identifiers with this one than the Receive Maximum.
    fn exceeds_with(&self, connack: Option<ConnackNote>, identifier: u16) -> bool
        ensures { result ≡ keeping.exceeds_with self.now connack identifier }
    {
        match connack {
            Some(connack) => usize::from(receive_maximum(connack)) < self.len_with(identifier),
            None => false,
        }
    }

    // How many identifiers there are with this one.
    fn len_with(&self, identifier: u16) -> usize
        ensures { result ≡ kept_with self.now identifier }
    {
        if self.identifiers.contains(identifier) {
            self.identifiers.len()
        } else {
            self.identifiers.len() + 1
        }
    }

    /// Takes in an event.
    ///
    /// # Errors
    ///
    /// `Memory` if there is no memory for an identifier. What is kept must then not be used any
    /// more.
    pub fn consume(&mut self, note: &Note) -> Result<(), Memory>
        ensures { OnOk result (UnfinishedNext self.old self.new note.now) }
    {
        self.clear_if(note.is_boundary());
        self.finish(note.received_pubrel());
        self.finish(note.ender());
        self.receive(note.received_exactly_once())?;
        Ok(())
    }

    // Forgets all identifiers, where a connection begins or ends.
    fn clear_if(&mut self, ends: bool)
        ensures { (i : ℕ) → has_identifier self.new i ≡ (not ends && has_identifier self.old i) }
    {
        if ends {
            self.identifiers.clear();
        }
    }

    // Forgets an identifier, if there is one.
    fn finish(&mut self, finished: Option<u16>)
        ensures { (i : ℕ) → has_identifier self.new i ≡ (not (is_id i finished) && has_identifier self.old i) }
    {
        if let Some(identifier) = finished {
            self.identifiers.remove(identifier);
        }
    }

    // Adds an identifier, if there is one.
    fn receive(&mut self, received: Option<u16>) -> Result<(), Memory>
        ensures { OnOk result ((i : ℕ) → has_identifier self.new i ≡ (is_id i received || has_identifier self.old i)) }
    {
        if let Some(identifier) = received {
            self.identifiers.insert(identifier, ())?;
        }
        Ok(())
    }

    /// How many identifiers are kept.
    pub fn identifiers_kept(&self) -> usize
        ensures { result ≡ unfinished_weigh self.now }
    {
        self.identifiers.len()
    }
}

// The Receive Maximum that a CONNACK announces.
fn receive_maximum(connack: ConnackNote) -> u16
    ensures { result ≡ receive_maximum_in connack }
{
    connack.receive_maximum.unwrap_or(GREATEST_RECEIVE_MAXIMUM)
}
