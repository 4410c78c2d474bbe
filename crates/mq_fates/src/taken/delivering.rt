//! Which events may have to do with releases, or with subscriptions (MQTT 5.0, sections 3.8.4, 3.9.3
//! and 4.3.3).
ghost use Rattle.std.specs.Prelude.{◌≡◌};
ghost use Rattle.mq_rules.specs.Notes.{note_of_bare};
ghost use Rattle.mq_fates.specs.Selecting as selecting;

use super::exchanges::is_acknowledged;
use mq_log::Direction;
use mq_rules::{Bare, BareFields, ItemNote, Note, PacketFields};

/// Whether an event, by its note, may have to do with a QoS 2 message that is received.
#[inline(always)]
pub fn note_may_concern_releases(note: &Note) -> bool
    ensures { result ≡ selecting.may_concern_releases note.now }
{
    match note {
        Note::Open | Note::Release(_) => true,
        Note::Close { .. } | Note::Rest => false,
        Note::Sent(ItemNote::Packet(packet)) => matches!(
            packet.fields,
            PacketFields::Pubrec { .. } | PacketFields::Pubcomp { .. }
        ),
        Note::Recv(ItemNote::Packet(packet)) => match &packet.fields {
            PacketFields::Publish(publish) => is_acknowledged(publish.qos),
            _ => false,
        },
        Note::Sent(_) | Note::Recv(_) => false,
    }
}

/// Whether a bare packet may have to do with a QoS 2 message that is received.
#[inline(always)]
#[tactic(auto, unfolding(mq_rules::specs::Notes::note_of_bare))]
pub fn bare_may_concern_releases(bare: Bare<'_>) -> bool
    ensures { result ≡ selecting.may_concern_releases (note_of_bare bare.entry) }
{
    match bare.direction {
        Direction::Sent => match bare.fields {
            BareFields::Pubrec { .. } | BareFields::Pubcomp { .. } => true,
            _ => false,
        },
        Direction::Recv => match bare.fields {
            BareFields::Publish { qos, .. } => is_acknowledged(qos),
            BareFields::Puback { .. }
            | BareFields::Pubrec { .. }
            | BareFields::Pubrel { .. }
            | BareFields::Pubcomp { .. }
            | BareFields::Pingreq
            | BareFields::Pingresp => false,
        },
    }
}

/// Whether an event, by its note, may have to do with what a client subscribed to, where
/// deliveries are judged or not.
#[inline(always)]
pub fn note_may_concern_subscriptions(bound: bool, note: &Note) -> bool
    ensures { result ≡ selecting.may_concern_subscriptions bound note.now }
{
    match note {
        Note::Open | Note::Close { .. } => true,
        Note::Rest | Note::Release(_) => false,
        Note::Sent(ItemNote::Packet(packet)) => delivers_or_grants(bound, &packet.fields),
        Note::Recv(ItemNote::Packet(packet)) => matches!(
            packet.fields,
            PacketFields::Subscribe { .. } | PacketFields::Unsubscribe { .. }
        ),
        Note::Sent(_) | Note::Recv(_) => false,
    }
}

// Whether a packet that is sent delivers a message where that is judged, has a Topic Alias, or
// answers a SUBSCRIBE or an UNSUBSCRIBE.
#[inline(always)]
fn delivers_or_grants(bound: bool, fields: &PacketFields) -> bool
    ensures { result ≡ selecting.delivers_or_grants bound fields.now }
{
    match fields {
        PacketFields::Publish(publish) => bound || publish.topic_alias.is_some(),
        PacketFields::Suback { .. } | PacketFields::Unsuback { .. } => true,
        _ => false,
    }
}

/// Whether a bare packet may have to do with what a client subscribed to.
#[inline(always)]
#[tactic(auto, unfolding(mq_rules::specs::Notes::note_of_bare))]
pub fn bare_may_concern_subscriptions(bound: bool, bare: Bare<'_>) -> bool
    ensures { result ≡ selecting.may_concern_subscriptions bound (note_of_bare bare.entry) }
{
    match bare.direction {
        Direction::Sent => match bare.fields {
            BareFields::Publish { .. } => bound,
            BareFields::Puback { .. }
            | BareFields::Pubrec { .. }
            | BareFields::Pubrel { .. }
            | BareFields::Pubcomp { .. }
            | BareFields::Pingreq
            | BareFields::Pingresp => false,
        },
        Direction::Recv => false,
    }
}
