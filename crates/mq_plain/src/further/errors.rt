//! D03: what a server owes for a packet that it can read, but that isn't allowed where it comes: a
//! Protocol Error (MQTT 5.0, sections 1.2 and 4.13.1).
ghost use Rattle.std.specs.Prelude.{◌≡◌, ◌||◌, Some, not, reverse};
ghost use Rattle.mq_rules.specs.declared.role.Role.TheVariants as roles;
ghost use Rattle.mq_rules.specs.Words.{is_some_and, only};
ghost use Rattle.mq_rules.specs.Notes.{publish_in, wishes_in};
ghost use Rattle.mq_rules.specs.Connections.{connection, first_connack, first_connect};
ghost use Rattle.mq_rules.specs.FurtherPasts as pasts;
ghost use Rattle.mq_rules.specs.ProtocolErrors as errors;
ghost use Rattle.mq_plain.specs.Terms as terms;

use crate::connection::some_on_connection;
use crate::further::authentication::lacks_method;
use crate::further::duties::{EndsTalk, Receives, SaysGoodbye};
use crate::further::moments::{MomentTest, is_first};
use crate::further::showing::LaterStatement;
use crate::handshake::handshake_of;
use crate::lookback::NoteTest;
use mq_packet::PacketType;
use mq_rules::{
    ConnackNote, ConnectNote, DisconnectNote, ItemNote, Note, PacketFields, PacketNote,
    PublishNote, Role, Rule, Seen, WishesNote, qos_number,
};

/// The Maximum QoS of a server that announces none (MQTT 5.0, section 3.2.2.3.4).
const GREATEST_QOS: u8 = 2;

/// The Protocol Errors that are received.
struct Errors;

impl MomentTest for Errors {
    ghost use Rattle.mq_rules.specs.ProtocolErrors.{is_protocol_error};

    ghost test = { λ t. is_protocol_error };

    fn passes(&self, event: &Seen, before: &[Seen]) -> bool {
        match event.note.received_packet() {
            Some(packet) => is_error(packet, before),
            None => false,
        }
    }
}

/// The bytes of a PUBLISH that break a rule, where they are received: the server may have read them
/// all the same, and a Topic Alias that they set.
#[derive(Drop)]
struct BrokenPublishes;

impl NoteTest for BrokenPublishes {
    ghost use Rattle.mq_rules.specs.ProtocolErrors.{receives_broken_publish};

    ghost test = { λ t. receives_broken_publish };

    fn passes(&self, note: &Note) -> bool {
        match note.received_item() {
            Some(item) => is_broken_publish(item),
            None => false,
        }
    }
}

/// The PUBLISHes with which the client sets this Topic Alias.
#[derive(Drop)]
struct SetsAlias(u16);

impl NoteTest for SetsAlias {
    ghost use Rattle.mq_rules.specs.Words.{is_id};
    ghost use Rattle.mq_rules.specs.ProtocolErrors.{alias_received};

    ghost test = { λ t n. is_id t.0 (alias_received n) };

    fn passes(&self, note: &Note) -> bool {
        alias_received(note) == Some(self.0)
    }
}

/// D03: the server closes the connection after a Protocol Error.
pub struct ClosedMistaken;

impl LaterStatement for ClosedMistaken {
    ghost use Rattle.std.specs.Prelude.{refl};
    ghost use Rattle.mq_rules.specs.declared.rule.Rule.TheVariants.{D03};
    ghost use Rattle.mq_rules.specs.FurtherRests.{shows_D03, owes_D03};
    ghost use Rattle.mq_plain.specs.Owed.{is_unclosed, D03_parts};

    ghost judged = { D03 };

    ghost shows = { shows_D03 };

    ghost owing = { owes_D03 };

    ghost due = { is_unclosed };

    fn rule() -> Rule {
        Rule::D03
    }

    fn owes(event: &Seen, before: &[Seen]) -> bool {
        is_first(&Errors, event, before) && !some_on_connection(&EndsTalk, before)
    }

    fn is_due(_event: &Seen, before: &[Seen]) -> bool {
        !some_on_connection(&SaysGoodbye, before)
    }

    ghost says = { λ role. refl };

    ghost parts = { D03_parts };
}

// Whether a packet that is received after these events is a Protocol Error.
fn is_error(packet: &PacketNote, before: &[Seen]) -> bool
    ensures { result ≡ errors.is_error (terms.has_connected (reverse before.now)) (first_connect roles.Server (connection (reverse before.now))) (first_connack roles.Server (connection (reverse before.now))) (terms.was_set (reverse before.now)) packet.now }
{
    is_out_of_place(&packet.fields, before)
        || breaks_terms(packet, handshake_of(Role::Server, before).connack, before)
}

// ---- errors whatever the server announced

// Whether it is one whatever the server announced.
fn is_out_of_place(fields: &PacketFields, before: &[Seen]) -> bool
    ensures { result ≡ errors.is_out_of_place (terms.has_connected (reverse before.now)) (first_connect roles.Server (connection (reverse before.now))) fields.now }
{
    is_of_servers(fields)
        || precedes_connect(fields, before)
        || authenticates_unasked(fields, before)
        || prolongs_session(fields, before)
}

// Whether only a server sends such a packet.
fn is_of_servers(fields: &PacketFields) -> bool
    ensures { result ≡ errors.is_of_servers fields.now }
{
    matches!(
        fields,
        PacketFields::Connack { .. }
            | PacketFields::Suback { .. }
            | PacketFields::Unsuback { .. }
            | PacketFields::Pingresp
    )
}

// Whether it is something else than a CONNECT, and none came before.
fn precedes_connect(fields: &PacketFields, before: &[Seen]) -> bool
    ensures { result ≡ errors.precedes_connect (terms.has_connected (reverse before.now)) fields.now }
{
    !some_on_connection(&Receives(PacketType::Connect), before) && fields.connect().is_none()
}

// Whether it is an AUTH, and the CONNECT had no Authentication Method.
fn authenticates_unasked(fields: &PacketFields, before: &[Seen]) -> bool
    ensures { result ≡ errors.authenticates_unasked (first_connect roles.Server (connection (reverse before.now))) fields.now }
{
    fields.is_auth() && lacks_method(Role::Server, before)
}

// Whether it is a DISCONNECT with a Session Expiry Interval other than 0, and that of the CONNECT
// was 0, or absent.
fn prolongs_session(fields: &PacketFields, before: &[Seen]) -> bool
    ensures { result ≡ errors.prolongs_session (first_connect roles.Server (connection (reverse before.now))) fields.now }
{
    match fields.disconnect() {
        Some(disconnect) => has_interval(disconnect)
            && ends_session(handshake_of(Role::Server, before).connect),
        None => false,
    }
}

// Whether it has a Session Expiry Interval other than 0.
fn has_interval(disconnect: DisconnectNote) -> bool
    ensures { result ≡ errors.has_interval disconnect }
{
    match disconnect.session_expiry {
        Some(seconds) => seconds != 0,
        None => false,
    }
}

// Whether there is a CONNECT, and its Session Expiry Interval is 0, or absent.
fn ends_session(connect: Option<ConnectNote>) -> bool
    ensures { result ≡ is_some_and errors.has_no_interval connect }
{
    match connect {
        Some(connect) => connect.session_expiry.unwrap_or(0) == 0,
        None => false,
    }
}

// ---- errors by what the CONNACK announced

// Whether a CONNACK accepts the connection, and it is an error by what that announced.
fn breaks_terms(packet: &PacketNote, connack: Option<ConnackNote>, before: &[Seen]) -> bool
    ensures { result ≡ errors.breaks_terms (terms.was_set (reverse before.now)) connack packet.now }
{
    match connack {
        Some(connack) => connack.code == 0 && breaks_announced(packet, connack, before),
        None => false,
    }
}

// Whether it is one by what this CONNACK announced.
fn breaks_announced(packet: &PacketNote, connack: ConnackNote, before: &[Seen]) -> bool
    ensures { result ≡ (errors.is_too_large (Some connack) packet.now || (is_some_and (errors.is_wrong_publish (terms.was_set (reverse before.now)) (Some connack)) (publish_in packet.now.fields) || is_some_and (errors.is_wrong_subscribe (Some connack)) (wishes_in packet.now.fields))) }
{
    is_too_large(packet, connack)
        || publishes_wrongly(&packet.fields, connack, before)
        || subscribes_wrongly(&packet.fields, connack)
}

// Whether it is above the server's Maximum Packet Size.
fn is_too_large(packet: &PacketNote, connack: ConnackNote) -> bool
    ensures { result ≡ errors.is_too_large (Some connack) packet.now }
{
    match connack.maximum_packet_size {
        Some(most) => most < packet.size,
        None => false,
    }
}

// Whether it is a PUBLISH that the server doesn't take.
fn publishes_wrongly(fields: &PacketFields, connack: ConnackNote, before: &[Seen]) -> bool
    ensures { result ≡ is_some_and (errors.is_wrong_publish (terms.was_set (reverse before.now)) (Some connack)) (publish_in fields.now) }
{
    match fields.publish() {
        Some(publish) => is_wrong_publish(publish, connack, before),
        None => false,
    }
}

fn is_wrong_publish(publish: &PublishNote, connack: ConnackNote, before: &[Seen]) -> bool
    ensures { result ≡ errors.is_wrong_publish (terms.was_set (reverse before.now)) (Some connack) publish.now }
{
    has_high_alias(publish, connack)
        || has_unset_alias(publish, before)
        || publish.has_subscription_identifier
        || has_high_qos(publish, connack)
        || retains_in_vain(publish, connack)
}

// Whether its Topic Alias is above the server's Topic Alias Maximum.
fn has_high_alias(publish: &PublishNote, connack: ConnackNote) -> bool
    ensures { result ≡ errors.has_high_alias (Some connack) publish.now }
{
    match publish.topic_alias {
        Some(alias) => connack.topic_alias_maximum.unwrap_or(0) < alias,
        None => false,
    }
}

// Whether its Topic Alias stands for a Topic Name, but wasn't set.
fn has_unset_alias(publish: &PublishNote, before: &[Seen]) -> bool
    ensures { result ≡ errors.has_unset_alias (terms.was_set (reverse before.now)) publish.now }
{
    publish.uses_alias && is_unset(publish.topic_alias, before)
}

// Whether there is a Topic Alias that wasn't set.
fn is_unset(alias: Option<u16>, before: &[Seen]) -> bool
    ensures { result ≡ errors.is_unset (terms.was_set (reverse before.now)) alias }
{
    match alias {
        Some(alias) => !was_set(alias, before),
        None => false,
    }
}

// Whether the client set the Topic Alias on the latest connection, or may have done so.
fn was_set(alias: u16, before: &[Seen]) -> bool
    ensures { result ≡ terms.was_set (reverse before.now) alias }
{
    some_on_connection(&BrokenPublishes, before) || some_on_connection(&SetsAlias(alias), before)
}

// Whether it is above the server's Maximum QoS.
fn has_high_qos(publish: &PublishNote, connack: ConnackNote) -> bool
    ensures { result ≡ errors.has_high_qos (Some connack) publish.now }
{
    connack.maximum_qos.unwrap_or(GREATEST_QOS) < qos_number(publish.qos)
}

// Whether it has RETAIN 1, and the server keeps no retained messages.
fn retains_in_vain(publish: &PublishNote, connack: ConnackNote) -> bool
    ensures { result ≡ errors.retains_in_vain (Some connack) publish.now }
{
    publish.retain && connack.retain_available == Some(0)
}

// Whether it is a SUBSCRIBE that the server doesn't take.
fn subscribes_wrongly(fields: &PacketFields, connack: ConnackNote) -> bool
    ensures { result ≡ is_some_and (errors.is_wrong_subscribe (Some connack)) (wishes_in fields.now) }
{
    match fields.wishes() {
        Some(wishes) => is_wrong_subscribe(wishes, connack),
        None => false,
    }
}

fn is_wrong_subscribe(wishes: WishesNote, connack: ConnackNote) -> bool
    ensures { result ≡ errors.is_wrong_subscribe (Some connack) wishes }
{
    wishes.has_no_local_share
        || (wishes.subscription_identifier.is_some()
            && connack.subscription_identifier_available == Some(0))
}

// ---- Topic Aliases

// The Topic Alias that the client sets: a PUBLISH is received with it and a Topic Name.
fn alias_received(note: &Note) -> Option<u16>
    ensures { result ≡ errors.alias_received note.now }
{
    match note.received_publish() {
        Some(publish) => named_alias(publish),
        None => None,
    }
}

// The Topic Alias of a PUBLISH, if that has a Topic Name.
fn named_alias(publish: &PublishNote) -> Option<u16>
    ensures { result ≡ only (not publish.now.uses_alias) publish.now.topic_alias }
{
    if publish.uses_alias {
        None
    } else {
        publish.topic_alias
    }
}

// Whether these are bytes of a PUBLISH that break a rule.
fn is_broken_publish(item: &ItemNote) -> bool
    ensures { result ≡ errors.is_broken_publish item.now }
{
    item.packet().is_none() && item.is_of_type(PacketType::Publish)
}
