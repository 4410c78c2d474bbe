//! C24, D01 and D02: what a server owes for what it received, and what a REST shows that it still
//! owes (MQTT 5.0, sections 3.1, 3.2 and 4.13).
ghost use Rattle.std.specs.Prelude.{◌≡◌, option_map, reverse};
ghost use Rattle.mq_packet.specs.declared.packet.PacketType.TheVariants as types;
ghost use Rattle.mq_rules.specs.declared.role.Role.TheVariants as roles;
ghost use Rattle.mq_rules.specs.Words.{is_some_and};
ghost use Rattle.mq_rules.specs.Notes.{connect_of, is_broken, receives_type, sends_type};
ghost use Rattle.mq_rules.specs.Moments.{note, since};
ghost use Rattle.mq_rules.specs.Connections.{connection};
ghost use Rattle.mq_rules.specs.Pasts.{is_sent_refusal};
ghost use Rattle.mq_rules.specs.FurtherRests as rests;

use crate::connection::{since_on_connection, some_on_connection};
use crate::further::moments::{MomentTest, is_first};
use crate::further::showing::LaterStatement;
use crate::lookback::NoteTest;
use mq_packet::{PacketRule, PacketType};
use mq_rules::{ConnectNote, ItemNote, Note, Role, Rule, Seen};

/// The size of the smallest CONNACK, in bytes: it has no properties (MQTT 5.0, section 3.2).
const SMALLEST_CONNACK: u32 = 5;

/// What is sent of a type, be it a packet or bytes that break a rule.
#[derive(Drop)]
struct Sends(PacketType);

impl NoteTest for Sends {
    ghost use Rattle.mq_rules.specs.Notes.{sends_type};

    ghost test = { λ t n. sends_type t.0 n };

    fn passes(&self, note: &Note) -> bool {
        note.sends_type(self.0)
    }
}

/// What is received of a type, likewise.
#[derive(Drop)]
pub struct Receives(pub PacketType);

impl NoteTest for Receives {
    ghost use Rattle.mq_rules.specs.Notes.{receives_type};

    ghost test = { λ t n. receives_type t.0 n };

    fn passes(&self, note: &Note) -> bool {
        note.receives_type(self.0)
    }
}

/// What settles a CONNECT: it is answered, or may have been the last that the server looked at.
#[derive(Drop)]
struct SettlesConnect;

impl NoteTest for SettlesConnect {
    ghost use Rattle.mq_rules.specs.FurtherRests.{settles_connect};

    ghost test = { λ t. settles_connect };

    fn passes(&self, note: &Note) -> bool {
        note.sent_connack().is_some()
            || ends_talk(note)
            || breaks_rule(note.sent_item())
            || breaks_rule(note.received_item())
    }
}

/// What either end sends before it closes the connection.
#[derive(Drop)]
pub struct EndsTalk;

impl NoteTest for EndsTalk {
    ghost use Rattle.mq_rules.specs.FurtherRests.{ends_talk};

    ghost test = { λ t. ends_talk };

    fn passes(&self, note: &Note) -> bool {
        ends_talk(note)
    }
}

/// What the server sends before it closes the connection.
#[derive(Drop)]
pub struct SaysGoodbye;

impl NoteTest for SaysGoodbye {
    ghost use Rattle.mq_rules.specs.FurtherRests.{says_goodbye};

    ghost test = { λ t. says_goodbye };

    fn passes(&self, note: &Note) -> bool {
        says_goodbye(note)
    }
}

/// The CONNECTs that are received.
struct Connects;

impl MomentTest for Connects {
    ghost use Rattle.mq_rules.specs.FurtherRests.{receives_connect};

    ghost test = { λ t. receives_connect };

    fn passes(&self, event: &Seen, _before: &[Seen]) -> bool {
        event.note.receives_type(PacketType::Connect)
    }
}

/// The CONNECTs that are received on a connection on which one was before.
struct Reconnects;

impl MomentTest for Reconnects {
    ghost use Rattle.mq_rules.specs.FurtherRests.{repeats_connect};

    ghost test = { λ t. repeats_connect };

    fn passes(&self, event: &Seen, before: &[Seen]) -> bool {
        event.note.receives_type(PacketType::Connect)
            && some_on_connection(&Receives(PacketType::Connect), before)
    }
}

/// The Malformed Packets that are received.
struct Malformed;

impl MomentTest for Malformed {
    ghost use Rattle.mq_rules.specs.Moments.{note};
    ghost use Rattle.mq_rules.specs.FurtherRests.{receives_malformed};

    ghost test = { λ t m. receives_malformed (note m) };

    fn passes(&self, event: &Seen, _before: &[Seen]) -> bool {
        match event.note.received_item() {
            Some(item) => is_malformed(item),
            None => false,
        }
    }
}

/// C24: a CONNECT is answered before the server is at rest.
pub struct AnsweredConnect;

impl LaterStatement for AnsweredConnect {
    ghost use Rattle.std.specs.Prelude.{refl};
    ghost use Rattle.mq_rules.specs.declared.rule.Rule.TheVariants.{C24};
    ghost use Rattle.mq_rules.specs.FurtherRests.{shows_C24, owes_C24};
    ghost use Rattle.mq_plain.specs.Owed.{is_unsettled, C24_parts};

    ghost judged = { C24 };

    ghost shows = { shows_C24 };

    ghost owing = { owes_C24 };

    ghost due = { is_unsettled };

    fn rule() -> Rule {
        Rule::C24
    }

    fn owes(event: &Seen, before: &[Seen]) -> bool {
        is_first(&Connects, event, before) && asks_for_connack(&event.note)
    }

    fn is_due(_event: &Seen, before: &[Seen]) -> bool {
        !some_on_connection(&SettlesConnect, before) && !waits_for_auth(before)
    }

    ghost says = { λ role. refl };

    ghost parts = { C24_parts };
}

/// D01: the server closes the connection after a Malformed Packet.
pub struct ClosedMalformed;

impl LaterStatement for ClosedMalformed {
    ghost use Rattle.std.specs.Prelude.{refl};
    ghost use Rattle.mq_rules.specs.declared.rule.Rule.TheVariants.{D01};
    ghost use Rattle.mq_rules.specs.FurtherRests.{shows_D01, owes_D01};
    ghost use Rattle.mq_plain.specs.Owed.{is_unclosed, D01_parts};

    ghost judged = { D01 };

    ghost shows = { shows_D01 };

    ghost owing = { owes_D01 };

    ghost due = { is_unclosed };

    fn rule() -> Rule {
        Rule::D01
    }

    fn owes(event: &Seen, before: &[Seen]) -> bool {
        is_first(&Malformed, event, before) && !some_on_connection(&EndsTalk, before)
    }

    fn is_due(_event: &Seen, before: &[Seen]) -> bool {
        !some_on_connection(&SaysGoodbye, before)
    }

    ghost says = { λ role. refl };

    ghost parts = { D01_parts };
}

/// D02: the server closes the connection after a second CONNECT.
pub struct ClosedReconnect;

impl LaterStatement for ClosedReconnect {
    ghost use Rattle.std.specs.Prelude.{refl};
    ghost use Rattle.mq_rules.specs.declared.rule.Rule.TheVariants.{D02};
    ghost use Rattle.mq_rules.specs.FurtherRests.{shows_D02, owes_D02};
    ghost use Rattle.mq_plain.specs.Owed.{is_unclosed, D02_parts};

    ghost judged = { D02 };

    ghost shows = { shows_D02 };

    ghost owing = { owes_D02 };

    ghost due = { is_unclosed };

    fn rule() -> Rule {
        Rule::D02
    }

    fn owes(event: &Seen, before: &[Seen]) -> bool {
        is_first(&Reconnects, event, before) && !some_on_connection(&EndsTalk, before)
    }

    fn is_due(_event: &Seen, before: &[Seen]) -> bool {
        !some_on_connection(&SaysGoodbye, before)
    }

    ghost says = { λ role. refl };

    ghost parts = { D02_parts };
}

// Whether the server sent an AUTH on the latest connection, and received none after it.
fn waits_for_auth(before: &[Seen]) -> bool
    ensures { result ≡ since (λ m. sends_type types.Auth (note m)) (λ m. receives_type types.Auth (note m)) (connection (reverse before.now)) }
{
    since_on_connection(
        &Sends(PacketType::Auth),
        &Receives(PacketType::Auth),
        before,
    )
}

// Whether a CONNECT is received whose client takes a CONNACK.
fn asks_for_connack(note: &Note) -> bool
    ensures { result ≡ is_some_and rests.takes_connack (connect_of roles.Server note.now) }
{
    match note.connect(Role::Server) {
        Some(connect) => takes_connack(connect),
        None => false,
    }
}

// Whether the client takes a CONNACK, by its Maximum Packet Size.
fn takes_connack(connect: &ConnectNote) -> bool
    ensures { result ≡ rests.takes_connack connect.now }
{
    match connect.maximum_packet_size {
        Some(size) => size >= SMALLEST_CONNACK,
        None => true,
    }
}

// Whether either end says that it closes the connection, where the server is tested.
fn ends_talk(note: &Note) -> bool
    ensures { result ≡ rests.ends_talk note.now }
{
    note.client_disconnect(Role::Server).is_some() || says_goodbye(note)
}

// Whether the server says that it closes the connection.
fn says_goodbye(note: &Note) -> bool
    ensures { result ≡ rests.says_goodbye note.now }
{
    note.sent_disconnect().is_some() || refuses(note)
}

// Whether a CONNACK is sent that refuses.
fn refuses(note: &Note) -> bool
    ensures { result ≡ is_sent_refusal note.now }
{
    match note.sent_connack() {
        Some(connack) => connack.refuses(),
        None => false,
    }
}

// Whether what is sent, or received, breaks a rule.
fn breaks_rule(item: Option<&ItemNote>) -> bool
    ensures { result ≡ is_some_and is_broken (option_map (λ item. item.now) item.entry) }
{
    match item {
        Some(item) => item.packet().is_none(),
        None => false,
    }
}

// Whether it can't be read as the standard lays it out.
fn is_malformed(item: &ItemNote) -> bool
    ensures { result ≡ rests.is_malformed item.now }
{
    match item {
        ItemNote::Packet(_packet) => false,
        ItemNote::Bad { rule, .. } => is_of_format(*rule),
        ItemNote::Lost => true,
    }
}

// Whether a packet that breaks this rule can't.
fn is_of_format(rule: PacketRule) -> bool
    ensures { result ≡ rests.is_of_format rule }
{
    !matches!(
        rule,
        PacketRule::W03
            | PacketRule::W08
            | PacketRule::W09
            | PacketRule::W13
            | PacketRule::W14
            | PacketRule::W15
            | PacketRule::W20
    )
}
