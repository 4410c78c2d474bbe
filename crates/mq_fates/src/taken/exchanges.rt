//! Which events may have to do with exchanges of messages, or with requests (MQTT 5.0, sections
//! 3.8.4, 3.10.4 and 4.3).
ghost use Rattle.std.specs.Prelude.{◌≡◌};
ghost use Rattle.mq_rules.specs.Notes.{is_acknowledged, note_of_bare};
ghost use Rattle.mq_fates.specs.Selecting as selecting;

use mq_log::Direction;
use mq_packet::Qos;
use mq_rules::{Bare, BareFields, ItemNote, Note, PacketFields};

/// Whether a PUBLISH of this QoS is acknowledged (MQTT 5.0, section 4.3).
#[inline(always)]
pub fn is_acknowledged(qos: Qos) -> bool
    ensures { result ≡ is_acknowledged qos }
{
    match qos {
        Qos::AtMostOnce => false,
        Qos::AtLeastOnce | Qos::ExactlyOnce => true,
    }
}

/// Whether an event, by its note, may have to do with an exchange of messages.
#[inline(always)]
pub fn note_may_concern_messages(note: &Note) -> bool
    ensures { result ≡ selecting.may_concern_messages note.now }
{
    match note {
        Note::Open | Note::Rest => true,
        Note::Close { .. } | Note::Release(_) => false,
        Note::Sent(ItemNote::Packet(packet)) => answers_message(&packet.fields),
        Note::Recv(ItemNote::Packet(packet)) => asks_by_message(&packet.fields),
        Note::Sent(_) | Note::Recv(_) => true,
    }
}

// Whether a packet that is sent answers a PUBLISH, PUBREC or PUBREL, or is a DISCONNECT, after
// which no REST binds.
#[inline(always)]
fn answers_message(fields: &PacketFields) -> bool
    ensures { result ≡ selecting.answers_message fields.now }
{
    matches!(
        fields,
        PacketFields::Puback { .. }
            | PacketFields::Pubrec { .. }
            | PacketFields::Pubrel { .. }
            | PacketFields::Pubcomp { .. }
            | PacketFields::Disconnect(_)
    )
}

// Whether a packet that is received may call for one of these answers, or is a DISCONNECT.
#[inline(always)]
fn asks_by_message(fields: &PacketFields) -> bool
    ensures { result ≡ selecting.asks_by_message fields.now }
{
    match fields {
        PacketFields::Publish(publish) => is_acknowledged(publish.qos),
        PacketFields::Pubrec { .. } | PacketFields::Pubrel { .. } | PacketFields::Disconnect(_) =>
            true,
        _ => false,
    }
}

/// Whether a bare packet may have to do with an exchange of messages.
#[inline(always)]
#[tactic(auto, unfolding(mq_rules::specs::Notes::note_of_bare))]
pub fn bare_may_concern_messages(bare: Bare<'_>) -> bool
    ensures { result ≡ selecting.may_concern_messages (note_of_bare bare.entry) }
{
    match bare.direction {
        Direction::Sent => match bare.fields {
            BareFields::Publish { .. } | BareFields::Pingreq | BareFields::Pingresp => false,
            BareFields::Puback { .. }
            | BareFields::Pubrec { .. }
            | BareFields::Pubrel { .. }
            | BareFields::Pubcomp { .. } => true,
        },
        Direction::Recv => match bare.fields {
            BareFields::Publish { qos, .. } => is_acknowledged(qos),
            BareFields::Pubrec { .. } | BareFields::Pubrel { .. } => true,
            _ => false,
        },
    }
}

/// Whether an event, by its note, may have to do with a SUBSCRIBE, an UNSUBSCRIBE or its answer.
#[inline(always)]
pub fn note_may_concern_requests(note: &Note) -> bool
    ensures { result ≡ selecting.may_concern_requests note.now }
{
    match note {
        Note::Open | Note::Rest => true,
        Note::Close { .. } | Note::Release(_) => false,
        Note::Sent(ItemNote::Packet(packet)) => answers_request(&packet.fields),
        Note::Recv(ItemNote::Packet(packet)) => asks_by_request(&packet.fields),
        Note::Sent(_) | Note::Recv(_) => true,
    }
}

// Whether a packet that is sent answers a SUBSCRIBE or an UNSUBSCRIBE, or is a DISCONNECT, after
// which no REST binds.
#[inline(always)]
fn answers_request(fields: &PacketFields) -> bool
    ensures { result ≡ selecting.answers_request fields.now }
{
    matches!(
        fields,
        PacketFields::Suback { .. } | PacketFields::Unsuback { .. } | PacketFields::Disconnect(_)
    )
}

// Whether a packet that is received calls for one of these answers, or is a DISCONNECT.
#[inline(always)]
fn asks_by_request(fields: &PacketFields) -> bool
    ensures { result ≡ selecting.asks_by_request fields.now }
{
    matches!(
        fields,
        PacketFields::Subscribe { .. }
            | PacketFields::Unsubscribe { .. }
            | PacketFields::Disconnect(_)
    )
}

/// Whether a bare packet may have to do with requests: none does.
#[inline(always)]
#[tactic(auto, unfolding(mq_rules::specs::Notes::note_of_bare))]
pub fn bare_may_concern_requests(bare: Bare<'_>) -> bool
    ensures { result ≡ selecting.may_concern_requests (note_of_bare bare.entry) }
{
    let _ = bare;
    false
}
