//! D05: what a server owes for more messages of QoS 2 than its Receive Maximum (MQTT 5.0, section
//! 3.3.4).
ghost use Rattle.std.specs.Prelude.{◌≡◌, ◌||◌, nat_lt, option_map, reverse};
ghost use Rattle.mq_rules.specs.declared.role.Role.TheVariants as roles;
ghost use Rattle.mq_rules.specs.Words.{is_some_and};
ghost use Rattle.mq_rules.specs.Connections.{connection, first_connack};
ghost use Rattle.mq_rules.specs.ReceiveMaximum as counting;
ghost use Rattle.mq_plain.specs.Excess as excess;

use crate::connection::{since_on_connection, some_on_connection};
use crate::further::duties::{EndsTalk, SaysGoodbye};
use crate::further::moments::{MomentTest, is_first};
use crate::further::showing::LaterStatement;
use crate::handshake::handshake_of;
use crate::lookback::NoteTest;
use mq_rules::{ConnackNote, Note, PacketFields, Role, Rule, Seen};

/// The Receive Maximum of a server that announces none (MQTT 5.0, section 3.2.2.3.3).
const RECEIVE_MAXIMUM: u16 = 65_535;

/// The lowest Reason Code that refuses (MQTT 5.0, section 2.4).
const REFUSING: u8 = 0x80;

/// The PUBLISHes of QoS 2 with which more messages aren't finished than the Receive Maximum.
struct Exceeding;

impl MomentTest for Exceeding {
    ghost use Rattle.mq_rules.specs.ReceiveMaximum.{exceeds_maximum};

    ghost test = { λ t. exceeds_maximum };

    fn passes(&self, event: &Seen, before: &[Seen]) -> bool {
        event.note.received_exactly_once().is_some() && exceeds_announced(event, before)
    }
}

/// The PUBLISHes of QoS 2 that are received under this Packet Identifier.
#[derive(Drop)]
struct Brings(u16);

impl NoteTest for Brings {
    ghost use Rattle.mq_rules.specs.Words.{is_id};
    ghost use Rattle.mq_rules.specs.Notes.{received_exactly_once};

    ghost test = { λ t n. is_id t.0 (received_exactly_once n) };

    fn passes(&self, note: &Note) -> bool {
        note.received_exactly_once() == Some(self.0)
    }
}

/// What finishes the message that was received under this Packet Identifier.
#[derive(Drop)]
struct Finishes(u16);

impl NoteTest for Finishes {
    ghost use Rattle.mq_rules.specs.ReceiveMaximum.{finishes_id};

    ghost test = { λ t. finishes_id t.0 };

    fn passes(&self, note: &Note) -> bool {
        note.received_pubrel() == Some(self.0) || note.ender() == Some(self.0)
    }
}

/// The PUBRECs that refuse a message of QoS 2.
#[derive(Drop)]
struct Refuses;

impl NoteTest for Refuses {
    ghost use Rattle.mq_rules.specs.ReceiveMaximum.{refuses_message};

    ghost test = { λ t. refuses_message };

    fn passes(&self, note: &Note) -> bool {
        match note.sent_fields() {
            Some(fields) => is_refusing_pubrec(fields),
            None => false,
        }
    }
}

/// D05: the server closes the connection after more messages than its Receive Maximum.
pub struct ClosedExceeding;

impl LaterStatement for ClosedExceeding {
    ghost use Rattle.std.specs.Prelude.{refl};
    ghost use Rattle.mq_rules.specs.declared.rule.Rule.TheVariants.{D05};
    ghost use Rattle.mq_rules.specs.FurtherRests.{shows_D05, owes_D05};
    ghost use Rattle.mq_plain.specs.Owed.{is_unclosed_unrefused, D05_parts};

    ghost judged = { D05 };

    ghost shows = { shows_D05 };

    ghost owing = { owes_D05 };

    ghost due = { is_unclosed_unrefused };

    fn rule() -> Rule {
        Rule::D05
    }

    fn owes(event: &Seen, before: &[Seen]) -> bool {
        is_first(&Exceeding, event, before) && !some_on_connection(&EndsTalk, before)
    }

    fn is_due(_event: &Seen, before: &[Seen]) -> bool {
        !some_on_connection(&SaysGoodbye, before) && !some_on_connection(&Refuses, before)
    }

    ghost says = { λ role. refl };

    ghost parts = { D05_parts };
}

// Whether with this event more messages aren't finished than the server announced in its CONNACK.
fn exceeds_announced(event: &Seen, before: &[Seen]) -> bool
    ensures { result ≡ is_some_and (λ most. nat_lt most (counting.unfinished (excess.with_event event.now (reverse before.now)))) (option_map counting.receive_maximum_in (first_connack roles.Server (connection (reverse before.now)))) }
{
    match handshake_of(Role::Server, before).connack {
        Some(connack) => exceeds(receive_maximum(connack), event, before),
        None => false,
    }
}

// The Receive Maximum that a CONNACK announces.
fn receive_maximum(connack: ConnackNote) -> u16
    ensures { result ≡ counting.receive_maximum_in connack }
{
    connack.receive_maximum.unwrap_or(RECEIVE_MAXIMUM)
}

// Whether with this event more messages aren't finished than this many. Each is counted where it
// was received first.
fn exceeds(most: u16, event: &Seen, before: &[Seen]) -> bool
    ensures { result ≡ nat_lt most (counting.unfinished (excess.with_event event.now (reverse before.now))) }
{
    match room_after(most, counts_one(&event.note, before, event, before)) {
        Some(room) => exceeds_earlier(room, event, before),
        None => true,
    }
}

// Whether of the messages that were received before this event more aren't finished with it than
// this many.
fn exceeds_earlier(most: u16, event: &Seen, before: &[Seen]) -> bool
    ensures { result ≡ nat_lt most (excess.different (counting.is_unfinished (excess.with_event event.now (reverse before.now))) (connection (reverse before.now))) }
{
    let mut earlier = before;
    let mut room = most;
    while let Some((here, rest)) = earlier.split_last() {
        let Some(left) = room_after(room, counts_one(&here.note, rest, event, before)) else {
            return true;
        };
        if here.note.is_open() {
            return false;
        }
        room = left;
        earlier = rest;
    }
    false
}

// What is left of the room for messages, if there is any for one more that is counted.
fn room_after(room: u16, counts: bool) -> Option<u16>
    ensures { result ≡ excess.room_after room counts }
{
    if !counts {
        return Some(room);
    }
    if room == 0 {
        return None;
    }
    Some(room - 1)
}

// Whether a message is counted where this note stands, after the rest: it is received there first,
// and isn't finished with the event.
fn counts_one(note: &Note, rest: &[Seen], event: &Seen, before: &[Seen]) -> bool
    ensures { result ≡ excess.counts_one (counting.is_unfinished (excess.with_event event.now (reverse before.now))) (connection (reverse rest.now)) note.now }
{
    match note.received_exactly_once() {
        Some(identifier) => is_unfinished(identifier, event, before)
            && !some_on_connection(&Brings(identifier), rest),
        None => false,
    }
}

// Whether the message that was received under this Packet Identifier isn't finished with the event.
fn is_unfinished(identifier: u16, event: &Seen, before: &[Seen]) -> bool
    ensures { result ≡ counting.is_unfinished (excess.with_event event.now (reverse before.now)) identifier }
{
    if Brings(identifier).passes(&event.note) {
        return true;
    }
    if Finishes(identifier).passes(&event.note) {
        return false;
    }
    since_on_connection(&Brings(identifier), &Finishes(identifier), before)
}

// Whether it is a PUBREC that refuses.
fn is_refusing_pubrec(fields: &PacketFields) -> bool
    ensures { result ≡ counting.is_refusing_pubrec fields.now }
{
    match fields {
        PacketFields::Pubrec { code, .. } => *code >= REFUSING,
        _ => false,
    }
}
