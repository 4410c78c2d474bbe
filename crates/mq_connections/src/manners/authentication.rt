//! Enhanced authentication, by what is kept of the latest connection: A01 to A03.
ghost use Rattle.std.specs.Prelude.{◌≡◌, ◌==◌, ◌||◌, not, option_map, is_some};
ghost use Rattle.std.specs.Option.{option_and_then};
ghost use Rattle.mq_packet.specs.declared.packet.PacketType.TheVariants as types;
ghost use Rattle.mq_rules.specs.declared.role.Role.TheVariants as roles;
ghost use Rattle.mq_rules.specs.Words.{is_some_and};
ghost use Rattle.mq_rules.specs.Notes.{sends_auth as sends_an_auth, sends_type};
ghost use Rattle.mq_rules.specs.FurtherPasts as pasts;
ghost use Rattle.mq_rules.specs.FurtherPasts.{lacks_method};
ghost use Rattle.mq_connections.specs.Manners as keeping;

use mq_packet::PacketType;
use mq_rules::{ConnackNote, ConnectNote, Method, Note, PacketNote, Role};

/// The size of a fixed header with a Remaining Length of one byte (MQTT 5.0, section 2.1.1).
const FIXED_HEADER: u32 = 2;

/// A01: whether something else than a CONNECT, an AUTH or a DISCONNECT is sent after a CONNECT with
/// an Authentication Method, and before a CONNACK was heard.
pub fn breaks_a01(connect: Option<ConnectNote>, has_heard_connack: bool, note: &Note) -> bool
    ensures { result ≡ keeping.finds_A01 connect has_heard_connack note.now }
{
    note.is_typed_sent() && !may_precede_connack(note) && has_method(connect) && !has_heard_connack
}

// Whether something of a type is sent that may come before the CONNACK.
fn may_precede_connack(note: &Note) -> bool
    ensures { result ≡ (sends_type types.Connect note.now || (sends_type types.Auth note.now || sends_type types.Disconnect note.now)) }
{
    note.sends_type(PacketType::Connect)
        || note.sends_type(PacketType::Auth)
        || note.sends_type(PacketType::Disconnect)
}

/// Whether a CONNACK is heard: something of that type is received, or what can't be cut into
/// packets.
pub fn hears_connack(note: &Note) -> bool
    ensures { result ≡ pasts.hears_connack note.now }
{
    match note.received_item() {
        Some(item) => item.is_of_type(PacketType::Connack) || !item.is_typed(),
        None => false,
    }
}

/// A02, of a server.
pub fn breaks_a02(connect: Option<ConnectNote>, note: &Note) -> bool
    ensures { result ≡ keeping.finds_A02 roles.Server connect note.now }
{
    (sends_auth(note) || names_method(note.sent_connack())) && has_no_method(connect)
}

/// Whether an AUTH is sent.
pub fn sends_auth(note: &Note) -> bool
    ensures { result ≡ sends_an_auth note.now }
{
    match note.sent_packet() {
        Some(packet) => packet.fields.is_auth(),
        None => false,
    }
}

// Whether there is a CONNACK with an Authentication Method.
fn names_method(connack: Option<&ConnackNote>) -> bool
    ensures { result ≡ is_some_and (λ c. c.has_authentication_method) (option_map (λ c. c.now) connack.entry) }
{
    match connack {
        Some(connack) => connack.has_authentication_method,
        None => false,
    }
}

// Whether there is a CONNECT, and it has an Authentication Method.
fn has_method(connect: Option<ConnectNote>) -> bool
    ensures { result ≡ pasts.has_method connect }
{
    match connect {
        Some(connect) => connect.has_authentication_method,
        None => false,
    }
}

/// Whether there is a CONNECT, and it has no Authentication Method.
pub fn has_no_method(connect: Option<ConnectNote>) -> bool
    ensures { result ≡ lacks_method connect }
{
    match connect {
        Some(connect) => !connect.has_authentication_method,
        None => false,
    }
}

// Whether it is an AUTH with more than its fixed header.
fn is_full_auth(packet: &PacketNote) -> bool
    ensures { result ≡ pasts.is_full_auth packet.now }
{
    packet.fields.is_auth() && packet.size > FIXED_HEADER
}

// Whether such an AUTH is sent.
fn sends_full_auth(note: &Note) -> bool
    ensures { result ≡ pasts.sends_full_auth note.now }
{
    match note.sent_packet() {
        Some(packet) => is_full_auth(packet),
        None => false,
    }
}

// Whether there is a CONNACK, and it accepts the connection.
fn accepts(connack: Option<&ConnackNote>) -> bool
    ensures { result ≡ is_some_and (λ c. c.code == 0) (option_map (λ c. c.now) connack.entry) }
{
    match connack {
        Some(connack) => connack.code == 0,
        None => false,
    }
}

// Whether a packet is sent that has to name the method of the CONNECT.
fn has_to_name(role: Role, note: &Note) -> bool
    ensures { result ≡ pasts.has_to_name role note.now }
{
    match role {
        Role::Client => sends_full_auth(note),
        Role::Server => sends_full_auth(note) || accepts(note.sent_connack()),
    }
}

// Whether the packet that is sent has this Authentication Method.
fn repeats_method(note: &Note, method: &str) -> bool
    ensures { result ≡ pasts.names_method note.now method.now }
{
    match note.sent_method() {
        Some(named) => method == named,
        None => false,
    }
}

// Whether there is an Authentication Method, and the packet that is sent doesn't have it.
fn names_no_such(note: &Note, method: Option<&str>) -> bool
    ensures { result ≡ is_some_and (λ method. not (pasts.names_method note.now method)) (option_map (λ method. method.now) method.entry) }
{
    match method {
        Some(method) => !repeats_method(note, method),
        None => false,
    }
}

/// The Authentication Method of a CONNECT, if there is one and it has a method.
pub fn method_of(connect: Option<&Method>) -> Option<&str>
    ensures { option_map (λ method. method.now) result ≡ option_and_then (λ method. method) (option_map (λ method. method.now) connect.entry) }
{
    match connect {
        Some(method) => method.as_str(),
        None => None,
    }
}

/// A03: whether a packet is sent that has to name the method of the CONNECT, and doesn't.
pub fn breaks_a03(role: Role, connect: Option<&Method>, note: &Note) -> bool
    ensures { result ≡ keeping.finds_A03 role (option_map (λ method. method.now) connect.entry) note.now }
{
    has_to_name(role, note) && names_no_such(note, method_of(connect))
}

/// Whether an event puts A01 to the test.
pub fn tries_a01(
    role: Role,
    connect: Option<ConnectNote>,
    has_heard_connack: bool,
    note: &Note,
) -> bool
    ensures { result ≡ keeping.tries_A01 role connect has_heard_connack note.now }
{
    match role {
        Role::Client => {
            note.is_typed_sent()
                && !note.sends_type(PacketType::Connect)
                && has_method(connect)
                && !has_heard_connack
        }
        Role::Server => false,
    }
}

/// Whether an event puts A02 to the test.
pub fn tries_a02(role: Role, connect: Option<ConnectNote>, note: &Note) -> bool
    ensures { result ≡ keeping.tries_A02 role connect note.now }
{
    match role {
        Role::Client => sends_auth(note) && connect.is_some(),
        Role::Server => {
            (sends_auth(note) && connect.is_some())
                || (note.sent_connack().is_some() && has_no_method(connect))
        }
    }
}

/// Whether an event puts A03 to the test.
pub fn tries_a03(role: Role, connect: Option<&Method>, note: &Note) -> bool
    ensures { result ≡ keeping.tries_A03 role (option_map (λ method. method.now) connect.entry) note.now }
{
    has_to_name(role, note) && method_of(connect).is_some()
}
