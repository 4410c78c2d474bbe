//! Events that pass by what is kept. Most events pass most of it, so that is asked first.
ghost use Rattle.std.specs.Prelude.{◌≡◌, ◌&&◌};
ghost use Rattle.mq_rules.specs.Notes.{is_acknowledged as needs_answer};
ghost use Rattle.mq_evidence.specs.Passing as passing;

use crate::turn::Turn;
use mq_packet::Qos;
use mq_rules::{ItemNote, Note, PacketFields};

// Whether a PUBLISH of this QoS is acknowledged (MQTT 5.0, section 4.3).
#[inline(always)]
fn is_acknowledged(qos: Qos) -> bool
    ensures { result ≡ needs_answer qos }
{
    match qos {
        Qos::AtMostOnce => false,
        Qos::AtLeastOnce => true,
        Qos::ExactlyOnce => true,
    }
}

// Whether the other end is to answer a packet.
#[inline(always)]
fn asks(fields: &PacketFields) -> bool
    ensures { result ≡ passing.asks fields.now }
{
    match fields {
        PacketFields::Publish(publish) => is_acknowledged(publish.qos),
        PacketFields::Pubrec { .. } => true,
        PacketFields::Pubrel { .. } => true,
        PacketFields::Subscribe { .. } => true,
        PacketFields::Unsubscribe { .. } => true,
        _ => false,
    }
}

// Whether a packet is an answer.
#[inline(always)]
fn answers(fields: &PacketFields) -> bool
    ensures { result ≡ passing.answers fields.now }
{
    match fields {
        PacketFields::Puback { .. } => true,
        PacketFields::Pubrec { .. } => true,
        PacketFields::Pubrel { .. } => true,
        PacketFields::Pubcomp { .. } => true,
        PacketFields::Suback { .. } => true,
        PacketFields::Unsuback { .. } => true,
        _ => false,
    }
}

// Whether a connection begins or ends by a packet.
#[inline(always)]
fn greets(fields: &PacketFields) -> bool
    ensures { result ≡ passing.greets fields.now }
{
    match fields {
        PacketFields::Connect { .. } => true,
        PacketFields::Connack { .. } => true,
        PacketFields::Disconnect(_) => true,
        _ => false,
    }
}

// Whether an event is a packet by which the tested end is asked for nothing, and answers nothing.
#[inline(always)]
fn is_unasked(note: &Note) -> bool
    ensures { result ≡ passing.is_unasked note.now }
{
    match note {
        Note::Sent(ItemNote::Packet(packet)) => !answers(&packet.fields),
        Note::Recv(ItemNote::Packet(packet)) => !asks(&packet.fields),
        _ => false,
    }
}

// Whether an event is a packet by which the tested end asks for nothing, and is answered nothing.
#[inline(always)]
fn is_unasking(note: &Note) -> bool
    ensures { result ≡ passing.is_unasking note.now }
{
    match note {
        Note::Sent(ItemNote::Packet(packet)) => !asks(&packet.fields),
        Note::Recv(ItemNote::Packet(packet)) => !answers(&packet.fields),
        _ => false,
    }
}

// Whether an event is a packet by which no connection begins or ends.
#[inline(always)]
fn is_amid(note: &Note) -> bool
    ensures { result ≡ passing.is_amid note.now }
{
    match note {
        Note::Sent(ItemNote::Packet(packet)) => !greets(&packet.fields),
        Note::Recv(ItemNote::Packet(packet)) => !greets(&packet.fields),
        _ => false,
    }
}

// Whether no session and no connection begins with an event.
#[inline(always)]
fn goes_on(turn: Turn) -> bool
    ensures { result ≡ passing.goes_on turn }
{
    !turn.begins && !turn.opens
}

/// Whether an event passes by what the tested end is asked for and answers.
#[inline(always)]
pub fn passes_asked(turn: Turn, note: &Note) -> bool
    ensures { result ≡ (passing.goes_on turn && passing.is_unasked note.now) }
{
    goes_on(turn) && is_unasked(note)
}

/// Whether an event passes by what the tested end asks for and is answered.
#[inline(always)]
pub fn passes_asking(turn: Turn, note: &Note) -> bool
    ensures { result ≡ (passing.goes_on turn && passing.is_unasking note.now) }
{
    goes_on(turn) && is_unasking(note)
}

/// Whether an event passes by how a connection begins and ends.
#[inline(always)]
pub fn passes_handshake(turn: Turn, note: &Note) -> bool
    ensures { result ≡ (passing.goes_on turn && passing.is_amid note.now) }
{
    goes_on(turn) && is_amid(note)
}
