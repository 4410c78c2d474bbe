//! Which events may have to do with Packet Identifiers that are in use, with the send quota, or with
//! pings (MQTT 5.0, sections 2.2.1, 3.12 and 4.9).
ghost use Rattle.std.specs.Prelude.{◌≡◌};
ghost use Rattle.mq_rules.specs.Notes.{note_of_bare};
ghost use Rattle.mq_fates.specs.Selecting as selecting;
ghost use Rattle.mq_fates.specs.Taking as taking;

use super::exchanges::is_acknowledged;
use mq_log::Direction;
use mq_rules::{Bare, BareFields, ItemNote, Note, PacketFields, Role};

/// The Receive Maximum of a peer that announces none.
pub const RECEIVE_MAXIMUM: u16 = 65_535;

/// The Receive Maximum that the peer of an end in this role announces by an event.
pub fn announced(role: Role, note: &Note) -> Option<u16>
    ensures { result ≡ taking.announced role note.now }
{
    match role {
        Role::Client => match note.connack(role) {
            Some(connack) => Some(connack.receive_maximum.unwrap_or(RECEIVE_MAXIMUM)),
            None => None,
        },
        Role::Server => match note.connect(role) {
            Some(connect) => Some(connect.receive_maximum.unwrap_or(RECEIVE_MAXIMUM)),
            None => None,
        },
    }
}

/// Whether no REST binds after this event on its connection.
pub fn ends(note: &Note) -> bool
    ensures { result ≡ taking.ends_by note.now }
{
    match note {
        Note::Sent(ItemNote::Packet(packet)) | Note::Recv(ItemNote::Packet(packet)) => {
            packet.fields.disconnect().is_some()
        }
        Note::Sent(_) | Note::Recv(_) => true,
        _ => false,
    }
}

/// Whether an event, by its note, may have to do with Packet Identifiers that are in use.
#[inline(always)]
pub fn note_may_concern_identifiers(note: &Note) -> bool
    ensures { result ≡ selecting.may_concern_identifiers note.now }
{
    match note {
        Note::Open | Note::Close { .. } | Note::Rest => true,
        Note::Release(_) => false,
        Note::Sent(ItemNote::Packet(packet)) => uses_identifier(&packet.fields),
        Note::Recv(ItemNote::Packet(packet)) => frees_identifier(&packet.fields),
        Note::Sent(_) | Note::Recv(_) => true,
    }
}

// Whether a packet that is sent may take an identifier or go on under one, or is a DISCONNECT,
// after which no REST binds.
#[inline(always)]
fn uses_identifier(fields: &PacketFields) -> bool
    ensures { result ≡ selecting.uses_identifier fields.now }
{
    match fields {
        PacketFields::Publish(publish) => is_acknowledged(publish.qos),
        PacketFields::Pubrel { .. }
        | PacketFields::Subscribe { .. }
        | PacketFields::Unsubscribe { .. }
        | PacketFields::Disconnect(_) => true,
        _ => false,
    }
}

// Whether a packet that is received may answer what was sent under an identifier, or announce what
// may be sent, or is a DISCONNECT, after which no REST binds.
#[inline(always)]
fn frees_identifier(fields: &PacketFields) -> bool
    ensures { result ≡ selecting.frees_identifier fields.now }
{
    matches!(
        fields,
        PacketFields::Connect { .. }
            | PacketFields::Connack { .. }
            | PacketFields::Puback { .. }
            | PacketFields::Pubrec { .. }
            | PacketFields::Pubcomp { .. }
            | PacketFields::Suback { .. }
            | PacketFields::Unsuback { .. }
            | PacketFields::Disconnect(_)
    )
}

/// Whether a bare packet may have to do with Packet Identifiers that are in use.
#[inline(always)]
#[tactic(auto, unfolding(mq_rules::specs::Notes::note_of_bare))]
pub fn bare_may_concern_identifiers(bare: Bare<'_>) -> bool
    ensures { result ≡ selecting.may_concern_identifiers (note_of_bare bare.entry) }
{
    match bare.direction {
        Direction::Sent => match bare.fields {
            BareFields::Publish { qos, .. } => is_acknowledged(qos),
            BareFields::Pubrel { .. } => true,
            _ => false,
        },
        Direction::Recv => match bare.fields {
            BareFields::Puback { .. } | BareFields::Pubrec { .. } | BareFields::Pubcomp { .. } =>
                true,
            _ => false,
        },
    }
}

/// Whether an event, by its note, may have to do with the send quota.
#[inline(always)]
pub fn note_may_concern_quota(note: &Note) -> bool
    ensures { result ≡ selecting.may_concern_quota note.now }
{
    match note {
        Note::Open => true,
        Note::Close { .. } | Note::Rest | Note::Release(_) => false,
        Note::Sent(ItemNote::Packet(packet)) => match &packet.fields {
            PacketFields::Publish(publish) => is_acknowledged(publish.qos),
            _ => false,
        },
        Note::Recv(ItemNote::Packet(packet)) => matches!(
            packet.fields,
            PacketFields::Connect { .. }
                | PacketFields::Connack { .. }
                | PacketFields::Puback { .. }
                | PacketFields::Pubrec { .. }
                | PacketFields::Pubcomp { .. }
        ),
        Note::Sent(_) | Note::Recv(_) => false,
    }
}

/// Whether a bare packet may have to do with the send quota.
#[inline(always)]
#[tactic(auto, unfolding(mq_rules::specs::Notes::note_of_bare))]
pub fn bare_may_concern_quota(bare: Bare<'_>) -> bool
    ensures { result ≡ selecting.may_concern_quota (note_of_bare bare.entry) }
{
    match bare.direction {
        Direction::Sent => match bare.fields {
            BareFields::Publish { qos, .. } => is_acknowledged(qos),
            BareFields::Puback { .. }
            | BareFields::Pubrec { .. }
            | BareFields::Pubrel { .. }
            | BareFields::Pubcomp { .. }
            | BareFields::Pingreq
            | BareFields::Pingresp => false,
        },
        Direction::Recv => match bare.fields {
            BareFields::Puback { .. } | BareFields::Pubrec { .. } | BareFields::Pubcomp { .. } =>
                true,
            _ => false,
        },
    }
}

/// Whether an event, by its note, may have to do with pings.
#[inline(always)]
pub fn note_may_concern_pings(note: &Note) -> bool
    ensures { result ≡ selecting.may_concern_pings note.now }
{
    match note {
        Note::Open | Note::Rest => true,
        Note::Close { .. } | Note::Release(_) => false,
        Note::Sent(ItemNote::Packet(packet)) => matches!(
            packet.fields,
            PacketFields::Pingresp | PacketFields::Disconnect(_)
        ),
        Note::Recv(ItemNote::Packet(packet)) => matches!(
            packet.fields,
            PacketFields::Pingreq | PacketFields::Disconnect(_)
        ),
        Note::Sent(_) | Note::Recv(_) => true,
    }
}

/// Whether a bare packet may have to do with pings.
#[inline(always)]
#[tactic(auto, unfolding(mq_rules::specs::Notes::note_of_bare))]
pub fn bare_may_concern_pings(bare: Bare<'_>) -> bool
    ensures { result ≡ selecting.may_concern_pings (note_of_bare bare.entry) }
{
    match bare.direction {
        Direction::Sent => matches!(bare.fields, BareFields::Pingresp),
        Direction::Recv => matches!(bare.fields, BareFields::Pingreq),
    }
}
