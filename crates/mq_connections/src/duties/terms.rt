//! What both ends said on the latest connection, and which packet of the client is a Protocol Error
//! by that.
ghost use Rattle.std.specs.Prelude.{◌≡◌, ◌+◌, ◌&&◌, ◌||◌, ℕ, cond, not, Option, Some, OnOk, option_map, false, None};
ghost use Rattle.std.specs.BTreeSet.{contains, btree_set_len};
ghost use Rattle.std.specs.Ordering.{nat_cmp};
ghost use Rattle.mq_rules.specs.declared.role.Role.TheVariants as roles;
ghost use Rattle.mq_rules.specs.Words.{is_id, is_some_and, only};
ghost use Rattle.mq_rules.specs.Notes.{is_open as opens, publish_in, wishes_in};
ghost use Rattle.mq_connections.specs.Finding.{is_another};
ghost use Rattle.mq_connections.specs.Manners.{connack_after, connect_after};
ghost use Rattle.mq_rules.specs.ProtocolErrors as errors;
ghost use Rattle.mq_connections.specs.Terms.{TermsNext, finds_error, may_be_set, terms_weigh};

use crate::manners::authentication::has_no_method;
use crate::manners::{lacks_identifiers, lacks_retain};
use mq_packet::PacketType;
use mq_rules::{
    ConnackNote, ConnectNote, DisconnectNote, ItemNote, Memory, Note, PacketFields, PacketNote,
    PublishNote, Role, WishesNote, qos_number,
};
use std::alloc::Global;
use std::collections::BTreeSet;

/// The Maximum QoS of a server that announces none (MQTT 5.0, section 3.2.2.3.4).
const GREATEST_QOS: u8 = 2;

/// What is kept of the latest connection.
#[derive(Drop)]
pub struct Terms {
    /// The first CONNECT that was received there.
    connect: Option<ConnectNote>,
    /// The first CONNACK that was sent there.
    connack: Option<ConnackNote>,
    /// Whether a PUBLISH was received there whose bytes break a rule: it may have set an alias.
    has_broken_publish: bool,
    /// The Topic Aliases that the client set, while the connection is open (MQTT 5.0, section
    /// 3.3.2.3.4).
    aliases: BTreeSet<u16>,
}

impl Terms {
    /// What is kept before the first event.
    pub fn new(alloc: Global) -> Terms
        ensures connect { result.connect ≡ None }
        ensures connack { result.connack ≡ None }
        ensures broken { result.has_broken_publish ≡ false }
        ensures aliases { (alias : ℕ) → contains nat_cmp result.aliases alias ≡ false }
        ensures as_many { btree_set_len result.aliases ≡ 0 }
    {
        Terms {
            connect: None,
            connack: None,
            has_broken_publish: false,
            aliases: BTreeSet::new(alloc),
        }
    }

    /// Whether with this event a packet is received that is a Protocol Error. The flag says whether
    /// a CONNECT was received before it.
    pub fn finds_error(&self, connected: bool, note: &Note) -> bool
        ensures { result ≡ finds_error connected self.now note.now }
    {
        match note.received_packet() {
            Some(packet) => self.is_error(connected, packet),
            None => false,
        }
    }

    // Whether a packet is a Protocol Error where it is received.
    fn is_error(&self, connected: bool, packet: &PacketNote) -> bool
        ensures { result ≡ errors.is_error connected self.now.connect self.now.connack (may_be_set self.now) packet.now }
    {
        is_out_of_place(connected, self.connect, &packet.fields) || self.breaks_terms(packet)
    }

    // Whether it is one by what the CONNACK announced, which accepted the connection.
    fn breaks_terms(&self, packet: &PacketNote) -> bool
        ensures { result ≡ errors.breaks_terms (may_be_set self.now) self.now.connack packet.now }
    {
        accepts_connection(self.connack)
            && (is_too_large(self.connack, packet)
                || self.publishes_wrongly(&packet.fields)
                || subscribes_wrongly(self.connack, &packet.fields))
    }

    // Whether it is such a PUBLISH.
    fn publishes_wrongly(&self, fields: &PacketFields) -> bool
        ensures { result ≡ is_some_and (errors.is_wrong_publish (may_be_set self.now) self.now.connack) (publish_in fields.now) }
    {
        match fields.publish() {
            Some(publish) => self.is_wrong_publish(publish),
            None => false,
        }
    }

    fn is_wrong_publish(&self, publish: &PublishNote) -> bool
        ensures { result ≡ errors.is_wrong_publish (may_be_set self.now) self.now.connack publish.now }
    {
        has_high_alias(self.connack, publish)
            || self.has_unset_alias(publish)
            || publish.has_subscription_identifier
            || has_high_qos(self.connack, publish)
            || retains_in_vain(self.connack, publish)
    }

    // Whether its Topic Alias stands for a Topic Name, but wasn't set.
    fn has_unset_alias(&self, publish: &PublishNote) -> bool
        ensures { result ≡ errors.has_unset_alias (may_be_set self.now) publish.now }
    {
        publish.uses_alias && self.is_unset(publish.topic_alias)
    }

    // Whether there is a Topic Alias that wasn't set.
    fn is_unset(&self, alias: Option<u16>) -> bool
        ensures { result ≡ errors.is_unset (may_be_set self.now) alias }
    {
        match alias {
            Some(alias) => !self.may_be_set(alias),
            None => false,
        }
    }

    // Whether the client has set the Topic Alias, or may have done so.
    fn may_be_set(&self, alias: u16) -> bool
        ensures { result ≡ may_be_set self.now alias }
    {
        self.has_broken_publish || self.aliases.contains(&alias)
    }

    /// Takes in an event.
    ///
    /// # Errors
    ///
    /// `Memory` if there is no memory for a Topic Alias. What is kept must then not be used any
    /// more.
    pub fn consume(&mut self, note: &Note) -> Result<(), Memory>
        ensures { OnOk result (TermsNext self.old self.new note.now) }
    {
        self.clear_aliases_if(note.is_boundary());
        self.set_alias(alias_received(note))?;
        self.follow(note);
        Ok(())
    }

    // Takes in all but the Topic Aliases.
    fn follow(&mut self, note: &Note)
        ensures connect { self.new.connect ≡ connect_after roles.Server self.old.connect note.now }
        ensures connack { self.new.connack ≡ connack_after roles.Server self.old.connack note.now }
        ensures broken { self.new.has_broken_publish ≡ ((not (opens note.now) && self.old.has_broken_publish) || errors.receives_broken_publish note.now) }
        ensures aliases { self.new.aliases ≡ self.old.aliases }
    {
        if note.is_open() {
            self.connect = None;
            self.connack = None;
            self.has_broken_publish = false;
        }
        self.connect = self.connect.or(note.connect(Role::Server).copied());
        self.connack = self.connack.or(note.connack(Role::Server).copied());
        self.has_broken_publish |= receives_broken_publish(note);
    }

    // Forgets all Topic Aliases, where a connection begins or ends.
    fn clear_aliases_if(&mut self, ends: bool)
        ensures connect { self.new.connect ≡ self.old.connect }
        ensures connack { self.new.connack ≡ self.old.connack }
        ensures broken { self.new.has_broken_publish ≡ self.old.has_broken_publish }
        ensures aliases { (alias : ℕ) → contains nat_cmp self.new.aliases alias ≡ (not ends && contains nat_cmp self.old.aliases alias) }
        ensures as_many { btree_set_len self.new.aliases ≡ cond ends 0 (btree_set_len self.old.aliases) }
    {
        if ends {
            self.aliases.clear();
        }
    }

    // Adds a Topic Alias, if there is one.
    fn set_alias(&mut self, set: Option<u16>) -> Result<(), Memory>
        ensures connect { OnOk result (self.new.connect ≡ self.old.connect) }
        ensures connack { OnOk result (self.new.connack ≡ self.old.connack) }
        ensures broken { OnOk result (self.new.has_broken_publish ≡ self.old.has_broken_publish) }
        ensures aliases { OnOk result ((alias : ℕ) → contains nat_cmp self.new.aliases alias ≡ (contains nat_cmp self.old.aliases alias || is_id alias set)) }
        ensures as_many { OnOk result (btree_set_len self.new.aliases ≡ cond (is_another (contains nat_cmp self.old.aliases) set) 1 0 + btree_set_len self.old.aliases) }
    {
        if let Some(alias) = set {
            self.aliases.insert(alias)?;
        }
        Ok(())
    }

    /// The first CONNACK that was sent on the latest connection.
    pub fn connack(&self) -> Option<ConnackNote>
        ensures { result ≡ self.now.connack }
    {
        self.connack
    }

    /// How many Topic Aliases are kept.
    pub fn aliases_kept(&self) -> usize
        ensures { result ≡ terms_weigh self.now }
    {
        self.aliases.len()
    }
}

// Whether something is received, other than a CONNECT, to which the server has to close the
// connection whatever it announced.
fn is_out_of_place(connected: bool, connect: Option<ConnectNote>, fields: &PacketFields) -> bool
    ensures { result ≡ errors.is_out_of_place connected connect fields.now }
{
    is_of_servers(fields)
        || precedes_connect(connected, fields)
        || authenticates_unasked(connect, fields)
        || prolongs_session(connect, fields)
}

// Whether it is a packet that only a server sends.
fn is_of_servers(fields: &PacketFields) -> bool
    ensures { result ≡ errors.is_of_servers fields.now }
{
    matches!(
        fields,
        PacketFields::Connack { .. }
            | PacketFields::Suback { .. }
            | PacketFields::Unsuback { .. }
            | PacketFields::Pingresp
    )
}

// Whether it is something else than a CONNECT, and no CONNECT was received before.
fn precedes_connect(connected: bool, fields: &PacketFields) -> bool
    ensures { result ≡ errors.precedes_connect connected fields.now }
{
    !connected && fields.connect().is_none()
}

// Whether it is an AUTH, and the CONNECT had no Authentication Method.
fn authenticates_unasked(connect: Option<ConnectNote>, fields: &PacketFields) -> bool
    ensures { result ≡ errors.authenticates_unasked connect fields.now }
{
    fields.is_auth() && has_no_method(connect)
}

// Whether it is a DISCONNECT with a Session Expiry Interval other than 0, and that of the CONNECT
// was 0, or absent.
fn prolongs_session(connect: Option<ConnectNote>, fields: &PacketFields) -> bool
    ensures { result ≡ errors.prolongs_session connect fields.now }
{
    match fields.disconnect() {
        Some(disconnect) => has_interval(disconnect) && ends_session(connect),
        None => false,
    }
}

// Whether a DISCONNECT has a Session Expiry Interval other than 0.
fn has_interval(disconnect: DisconnectNote) -> bool
    ensures { result ≡ errors.has_interval disconnect }
{
    match disconnect.session_expiry {
        Some(seconds) => seconds != 0,
        None => false,
    }
}

// Whether there is a CONNECT, and its Session Expiry Interval is 0, or absent.
fn ends_session(connect: Option<ConnectNote>) -> bool
    ensures { result ≡ is_some_and errors.has_no_interval connect }
{
    match connect {
        Some(connect) => connect.session_expiry.unwrap_or(0) == 0,
        None => false,
    }
}

// Whether there is a CONNACK, and it accepts the connection.
fn accepts_connection(connack: Option<ConnackNote>) -> bool
    ensures { result ≡ errors.accepts_connection connack }
{
    match connack {
        Some(connack) => connack.code == 0,
        None => false,
    }
}

// Whether a packet is above the server's Maximum Packet Size.
fn is_too_large(connack: Option<ConnackNote>, packet: &PacketNote) -> bool
    ensures { result ≡ errors.is_too_large connack packet.now }
{
    match connack.and_then(|connack| connack.maximum_packet_size) {
        Some(most) => most < packet.size,
        None => false,
    }
}

// Whether a PUBLISH has a Topic Alias above the server's Topic Alias Maximum.
fn has_high_alias(connack: Option<ConnackNote>, publish: &PublishNote) -> bool
    ensures { result ≡ errors.has_high_alias connack publish.now }
{
    match publish.topic_alias {
        Some(alias) => connack
            .and_then(|connack| connack.topic_alias_maximum)
            .unwrap_or(0)
            < alias,
        None => false,
    }
}

// Whether a PUBLISH is above the server's Maximum QoS.
fn has_high_qos(connack: Option<ConnackNote>, publish: &PublishNote) -> bool
    ensures { result ≡ errors.has_high_qos connack publish.now }
{
    connack
        .and_then(|connack| connack.maximum_qos)
        .unwrap_or(GREATEST_QOS)
        < qos_number(publish.qos)
}

// Whether a PUBLISH has RETAIN 1, and the server keeps no retained messages.
fn retains_in_vain(connack: Option<ConnackNote>, publish: &PublishNote) -> bool
    ensures { result ≡ errors.retains_in_vain connack publish.now }
{
    publish.retain && lacks_retain(connack)
}

// Whether it is a SUBSCRIBE that the server doesn't take.
fn subscribes_wrongly(connack: Option<ConnackNote>, fields: &PacketFields) -> bool
    ensures { result ≡ is_some_and (errors.is_wrong_subscribe connack) (wishes_in fields.now) }
{
    match fields.wishes() {
        Some(wishes) => is_wrong_subscribe(connack, wishes),
        None => false,
    }
}

fn is_wrong_subscribe(connack: Option<ConnackNote>, wishes: WishesNote) -> bool
    ensures { result ≡ errors.is_wrong_subscribe connack wishes }
{
    wishes.has_no_local_share
        || (wishes.subscription_identifier.is_some() && lacks_identifiers(connack))
}

// The Topic Alias that the client sets: a PUBLISH is received with it and a Topic Name.
fn alias_received(note: &Note) -> Option<u16>
    ensures { result ≡ errors.alias_received note.now }
{
    match note.received_publish() {
        Some(publish) => named_alias(publish),
        None => None,
    }
}

// The Topic Alias that comes with a Topic Name.
fn named_alias(publish: &PublishNote) -> Option<u16>
    ensures { result ≡ only (not publish.now.uses_alias) publish.now.topic_alias }
{
    if publish.uses_alias {
        None
    } else {
        publish.topic_alias
    }
}

// Whether a PUBLISH is received whose bytes break a rule.
fn receives_broken_publish(note: &Note) -> bool
    ensures { result ≡ errors.receives_broken_publish note.now }
{
    match note.received_item() {
        Some(item) => is_broken_publish(item),
        None => false,
    }
}

// Whether an item is a PUBLISH whose bytes break a rule.
fn is_broken_publish(item: &ItemNote) -> bool
    ensures { result ≡ errors.is_broken_publish item.now }
{
    item.packet().is_none() && item.is_of_type(PacketType::Publish)
}
