//! Events that are seen at once to break no statement, and to leave what is kept as it is: most of
//! them.
//!
//! What is kept then gives some bounds, and an event is compared with those.
ghost use Rattle.std.specs.Prelude.{◌≡◌, ◌&&◌, ◌||◌, not, is_none, nat_le};
ghost use Rattle.mq_rules.specs.Words.{is_some_and};
ghost use Rattle.mq_rules.specs.Notes.{resumed_by, qos_number as number_of, bare_fields, note_of_bare};
ghost use Rattle.mq_connections.specs.Finding as finding;
ghost use Rattle.mq_connections.specs.Finding.{is_harmless as harmless, is_harmless_in as harmless_in};
ghost use Rattle.mq_rules.specs.declared.role.Role.TheVariants as roles;
ghost use Rattle.mq_log.specs.declared.kind.Direction.TheVariants as directions;

use super::verdicts::{has_explanation, is_not_to_be_resumed, is_resumed, qos_limit, size_limit};
use mq_log::Direction;
use mq_rules::{
    Bare, BareFields, ConnectionState, ItemNote, Note, PacketFields, PublishNote, Role,
    is_ordinary, qos_number,
};

/// One byte more than the largest packet has.
const ANY_SIZE: u64 = 0x1_0000_0000;

/// The greatest QoS that there is (MQTT 5.0, section 4.3).
const ANY_QOS: u8 = 2;

/// What a packet is compared with, to see that it breaks nothing.
#[derive(Clone, Copy, Debug, PartialEq, Eq)]
pub struct SendBounds {
    /// The tested end.
    pub role: Role,
    /// A packet of fewer bytes can be sent; none if this is 0.
    pub size: u64,
    /// The greatest QoS of a PUBLISH that can be sent.
    pub qos: u8,
}

/// What a packet is compared with on this connection.
#[inline]
pub fn send_bounds(state: &ConnectionState, role: Role) -> SendBounds
    ensures { result ≡ finding.send_bounds role state.now }
{
    SendBounds {
        role,
        size: size_bound(state, role),
        qos: qos_bound(state, role),
    }
}

// A packet of fewer bytes can be sent, where its type and fields break nothing. It is 0 where
// the end may not go on.
#[inline]
fn size_bound(state: &ConnectionState, role: Role) -> u64
    ensures { result ≡ finding.size_bound role state.now }
{
    if !may_go_on(state, role) {
        return 0;
    }
    match size_limit(state, role) {
        Some(most) => u64::from(most) + 1,
        None => ANY_SIZE,
    }
}

// The greatest QoS that the end may send.
#[inline]
fn qos_bound(state: &ConnectionState, role: Role) -> u8
    ensures { result ≡ finding.qos_bound role state.now }
{
    match role {
        Role::Client => qos_limit(state),
        Role::Server => ANY_QOS,
    }
}

// Whether the end has begun to send and may go on: it has sent neither a DISCONNECT nor a
// CONNACK that refuses, a server has sent its CONNACK, and for a client no session was resumed
// that should not have been.
fn may_go_on(state: &ConnectionState, role: Role) -> bool
    ensures { result ≡ finding.may_go_on role state.now }
{
    match role {
        Role::Client => client_may_go_on(state),
        Role::Server => server_may_go_on(state),
    }
}

// Whether a client may go on: C02, C11 and C13 then hold of whatever it sends.
fn client_may_go_on(state: &ConnectionState) -> bool
    ensures { result ≡ finding.may_go_on roles.Client state.now }
{
    state.has_sent && !state.has_sent_disconnect && !is_resumed_wrongly(state)
}

// Whether a server may go on: C05, C11 and C12 then hold of whatever it sends.
fn server_may_go_on(state: &ConnectionState) -> bool
    ensures { result ≡ finding.may_go_on roles.Server state.now }
{
    state.has_sent
        && state.has_sent_connack
        && !state.has_sent_disconnect
        && !state.has_sent_refusal
}

// Whether a session was resumed that should not have been.
fn is_resumed_wrongly(state: &ConnectionState) -> bool
    ensures { result ≡ (is_some_and resumed_by state.now.connack && (is_some_and (λ c. c.clean_start) state.now.connect || not state.now.was_alive)) }
{
    is_resumed(state) && is_not_to_be_resumed(state)
}

/// Whether an event is seen at once to break nothing and to change nothing, where these are the
/// bounds.
#[inline(always)]
pub fn is_harmless(bounds: SendBounds, note: &Note) -> bool
    ensures { result ≡ harmless bounds note.now }
{
    match note {
        Note::Sent(ItemNote::Packet(packet)) => {
            u64::from(packet.size) < bounds.size
                && !has_explanation(packet)
                && is_harmless_in(bounds.role, bounds.qos, &packet.fields)
        }
        Note::Recv(ItemNote::Packet(packet)) => 0 < bounds.size && is_ordinary(&packet.fields),
        _ => false,
    }
}

/// The same of a bare packet.
#[inline(always)]
#[tactic(auto, unfolding(mq_rules::specs::Notes::note_of_bare))]
pub fn is_bare_harmless(bounds: SendBounds, bare: Bare<'_>) -> bool
    ensures { result ≡ harmless bounds (note_of_bare bare.entry) }
{
    match bare.direction {
        Direction::Sent => {
            u64::from(bare.size) < bounds.size
                && is_sent_freely(bounds.role, bounds.qos, bare.fields)
        }
        Direction::Recv => 0 < bounds.size,
    }
}

// Whether it is a PUBLISH up to this QoS, acknowledges a PUBLISH, or is a ping that this end may
// send.
#[inline(always)]
fn is_sent_freely(role: Role, most: u8, fields: BareFields<'_>) -> bool
    ensures { result ≡ harmless_in role most (bare_fields directions.Sent fields.entry) }
{
    match fields {
        BareFields::Publish { qos, .. } => qos_number(qos) <= most,
        BareFields::Puback { .. }
        | BareFields::Pubrec { .. }
        | BareFields::Pubrel { .. }
        | BareFields::Pubcomp { .. } => true,
        BareFields::Pingreq => matches!(role, Role::Client),
        BareFields::Pingresp => matches!(role, Role::Server),
    }
}

// Whether it is a PUBLISH up to this QoS with neither a Topic Alias nor a Subscription Identifier,
// acknowledges a PUBLISH, or is a ping that this end may send.
#[inline(always)]
fn is_harmless_in(role: Role, most: u8, fields: &PacketFields) -> bool
    ensures { result ≡ harmless_in role most fields.now }
{
    match fields {
        PacketFields::Publish(publish) => is_plain(most, publish),
        PacketFields::Puback { .. }
        | PacketFields::Pubrec { .. }
        | PacketFields::Pubrel { .. }
        | PacketFields::Pubcomp { .. } => true,
        PacketFields::Pingreq => matches!(role, Role::Client),
        PacketFields::Pingresp => matches!(role, Role::Server),
        _ => false,
    }
}

// Whether a PUBLISH has at most this QoS, and neither a Topic Alias nor a Subscription Identifier.
#[inline(always)]
fn is_plain(most: u8, publish: &PublishNote) -> bool
    ensures { result ≡ (is_none publish.now.topic_alias && (not publish.now.has_subscription_identifier && nat_le (number_of publish.now.qos) most)) }
{
    publish.topic_alias.is_none()
        && !publish.has_subscription_identifier
        && qos_number(publish.qos) <= most
}
