//! A01 to A03: enhanced authentication (MQTT 5.0, section 4.12).
ghost use Rattle.std.specs.Prelude.{◌≡◌, ◌==◌, ◌&&◌, ◌||◌, not, option_map, reverse};
ghost use Rattle.std.specs.Option.{option_and_then};
ghost use Rattle.mq_packet.specs.declared.packet.PacketType.TheVariants as types;
ghost use Rattle.mq_rules.specs.declared.role.Role.TheVariants as roles;
ghost use Rattle.mq_rules.specs.Words.{is_some_and};
ghost use Rattle.mq_rules.specs.Notes.{connect_method, sent_connack as connack_of, sends_auth as sends_an_auth, sends_type};
ghost use Rattle.mq_rules.specs.Moments.{note, some, first_found};
ghost use Rattle.mq_rules.specs.Connections.{connection, first_connect};
ghost use Rattle.mq_rules.specs.FurtherPasts as pasts;

use crate::connection::some_on_connection;
use crate::earliest::earliest_on_connection;
use crate::further::judging::PastStatement;
use crate::handshake::handshake_of;
use crate::lookback::{Never, NoteTest};
use mq_packet::PacketType;
use mq_rules::{Method, Note, PacketNote, Role, Rule, Seen};

/// The size of a fixed header with a Remaining Length of one byte (MQTT 5.0, section 2.1.1).
const FIXED_HEADER: u32 = 2;

/// The events by which a CONNACK is heard: something of that type is received, or what can't be cut
/// into packets.
#[derive(Drop)]
struct HearsConnack;

impl NoteTest for HearsConnack {
    ghost use Rattle.mq_rules.specs.FurtherPasts.{hears_connack};

    ghost test = { λ t. hears_connack };

    fn passes(&self, note: &Note) -> bool {
        match note.received_item() {
            Some(item) => item.is_of_type(PacketType::Connack) || !item.is_typed(),
            None => false,
        }
    }
}

/// The client's CONNECTs, where this end is tested.
#[derive(Drop)]
struct ClientConnects(Role);

impl NoteTest for ClientConnects {
    ghost use Rattle.std.specs.Prelude.{is_some};
    ghost use Rattle.mq_rules.specs.Notes.{connect_method};

    ghost test = { λ t n. is_some (connect_method t.0 n) };

    fn passes(&self, note: &Note) -> bool {
        note.connect_method(self.0).is_some()
    }
}

/// A01: between a CONNECT with an Authentication Method and the CONNACK, only AUTH and DISCONNECT
/// are sent.
pub struct WaitsForConnack;

impl PastStatement for WaitsForConnack {
    ghost use Rattle.std.specs.Prelude.{refl};
    ghost use Rattle.mq_rules.specs.declared.rule.Rule.TheVariants.{A01};
    ghost use Rattle.mq_rules.specs.FurtherPasts.{breaks_A01};

    ghost judged = { A01 };

    ghost breaks = { λ role. breaks_A01 };

    fn rule() -> Rule {
        Rule::A01
    }

    #[tactic(auto, unfolding(mq_rules::specs::FurtherPasts::breaks_A01))]
    fn is_broken(_role: Role, event: &Seen, before: &[Seen]) -> bool {
        event.note.is_typed_sent() && !may_precede_connack(&event.note) && is_authenticating(before)
    }

    ghost says = { λ role. refl };
}

/// A02: there is no enhanced authentication after a CONNECT without an Authentication Method.
pub struct AskedAuthentication;

impl PastStatement for AskedAuthentication {
    ghost use Rattle.std.specs.Prelude.{refl};
    ghost use Rattle.mq_rules.specs.declared.rule.Rule.TheVariants.{A02};
    ghost use Rattle.mq_rules.specs.FurtherPasts.{breaks_A02};

    ghost judged = { A02 };

    ghost breaks = { breaks_A02 };

    fn rule() -> Rule {
        Rule::A02
    }

    #[tactic(auto, unfolding(mq_rules::specs::FurtherPasts::breaks_A02))]
    fn is_broken(role: Role, event: &Seen, before: &[Seen]) -> bool {
        match role {
            Role::Client => sends_auth(&event.note) && lacks_method(Role::Client, before),
            Role::Server => authenticates(&event.note) && lacks_method(Role::Server, before),
        }
    }

    ghost says = { λ role. refl };
}

/// A03: what has to name the Authentication Method of the CONNECT does.
pub struct SameMethod;

impl PastStatement for SameMethod {
    ghost use Rattle.std.specs.Prelude.{refl};
    ghost use Rattle.mq_rules.specs.declared.rule.Rule.TheVariants.{A03};
    ghost use Rattle.mq_rules.specs.FurtherPasts.{breaks_A03};

    ghost judged = { A03 };

    ghost breaks = { breaks_A03 };

    fn rule() -> Rule {
        Rule::A03
    }

    #[tactic(auto, unfolding(mq_rules::specs::FurtherPasts::breaks_A03))]
    fn is_broken(role: Role, event: &Seen, before: &[Seen]) -> bool {
        has_to_name(role, &event.note) && names_another(&event.note, method_before(role, before))
    }

    ghost says = { λ role. refl };
}

// Whether something of a type is sent that may come before the CONNACK.
fn may_precede_connack(note: &Note) -> bool
    ensures { result ≡ (sends_type types.Connect note.now || (sends_type types.Auth note.now || sends_type types.Disconnect note.now)) }
{
    note.sends_type(PacketType::Connect)
        || note.sends_type(PacketType::Auth)
        || note.sends_type(PacketType::Disconnect)
}

// Whether a client sent a CONNECT with an Authentication Method on the latest connection, and heard
// no CONNACK there.
fn is_authenticating(before: &[Seen]) -> bool
    ensures { result ≡ (pasts.has_method (first_connect roles.Client (connection (reverse before.now))) && not (some (λ m. pasts.hears_connack (note m)) (connection (reverse before.now)))) }
{
    has_method(before) && !some_on_connection(&HearsConnack, before)
}

// Whether it sent such a CONNECT there.
fn has_method(before: &[Seen]) -> bool
    ensures { result ≡ pasts.has_method (first_connect roles.Client (connection (reverse before.now))) }
{
    match handshake_of(Role::Client, before).connect {
        Some(connect) => connect.has_authentication_method,
        None => false,
    }
}

/// Whether there is a CONNECT on the latest connection, and it has no Authentication Method.
pub fn lacks_method(role: Role, before: &[Seen]) -> bool
    ensures { result ≡ pasts.lacks_method (first_connect role (connection (reverse before.now))) }
{
    match handshake_of(role, before).connect {
        Some(connect) => !connect.has_authentication_method,
        None => false,
    }
}

// Whether an AUTH is sent.
fn sends_auth(note: &Note) -> bool
    ensures { result ≡ sends_an_auth note.now }
{
    match note.sent_packet() {
        Some(packet) => packet.fields.is_auth(),
        None => false,
    }
}

// Whether an AUTH is sent, or a CONNACK with an Authentication Method.
fn authenticates(note: &Note) -> bool
    ensures { result ≡ (sends_an_auth note.now || is_some_and (λ c. c.has_authentication_method) (connack_of note.now)) }
{
    sends_auth(note) || sends_method(note)
}

// Whether a CONNACK is sent with an Authentication Method.
fn sends_method(note: &Note) -> bool
    ensures { result ≡ is_some_and (λ c. c.has_authentication_method) (connack_of note.now) }
{
    match note.sent_connack() {
        Some(connack) => connack.has_authentication_method,
        None => false,
    }
}

// Whether a packet is sent that has to name the method of the CONNECT.
fn has_to_name(role: Role, note: &Note) -> bool
    ensures { result ≡ pasts.has_to_name role note.now }
{
    match role {
        Role::Client => sends_full_auth(note),
        Role::Server => sends_full_auth(note) || accepts(note),
    }
}

// Whether an AUTH with more than its fixed header is sent.
fn sends_full_auth(note: &Note) -> bool
    ensures { result ≡ pasts.sends_full_auth note.now }
{
    match note.sent_packet() {
        Some(packet) => is_full_auth(packet),
        None => false,
    }
}

// Whether it is such an AUTH.
fn is_full_auth(packet: &PacketNote) -> bool
    ensures { result ≡ pasts.is_full_auth packet.now }
{
    packet.fields.is_auth() && packet.size > FIXED_HEADER
}

// Whether a CONNACK is sent that accepts the connection.
fn accepts(note: &Note) -> bool
    ensures { result ≡ is_some_and (λ c. c.code == 0) (connack_of note.now) }
{
    match note.sent_connack() {
        Some(connack) => connack.code == 0,
        None => false,
    }
}

// The Authentication Method of the client's first CONNECT on the latest connection, if it has one.
fn method_before(role: Role, before: &[Seen]) -> Option<&str>
    ensures { option_map (λ method. method.now) result ≡ option_and_then (λ method. method) (first_found (connect_method role) (connection (reverse before.now))) }
{
    match connect_before(role, before) {
        Some(method) => method.as_str(),
        None => None,
    }
}

// What the client's first CONNECT on the latest connection has as its Authentication Method.
fn connect_before(role: Role, before: &[Seen]) -> Option<&Method>
    ensures { option_map (λ method. method.now) result ≡ first_found (connect_method role) (connection (reverse before.now)) }
{
    match earliest_on_connection(&ClientConnects(role), &Never, before) {
        Some(first) => first.event.note.connect_method(role),
        None => None,
    }
}

// Whether there is an Authentication Method, and the packet that is sent doesn't have it.
fn names_another(note: &Note, method: Option<&str>) -> bool
    ensures { result ≡ is_some_and (λ method. not (pasts.names_method note.now method)) (option_map (λ method. method.now) method.entry) }
{
    match method {
        Some(method) => !names_method(note, method),
        None => false,
    }
}

// Whether the packet that is sent has this Authentication Method.
fn names_method(note: &Note, method: &str) -> bool
    ensures { result ≡ pasts.names_method note.now method.now }
{
    match note.sent_method() {
        Some(named) => method == named,
        None => false,
    }
}
