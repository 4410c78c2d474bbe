//! K01 and K02: for how long a client is silent, and for how long a server leaves it at that (MQTT
//! 5.0, section 3.1.2.10). They look at the moments of the records, which are microseconds.
ghost use Rattle.std.specs.Prelude.{◌≡◌, ◌==◌, ◌-◌, ◌<◌, ◌^◌, ◌&&◌, ◌||◌, not, cond, max, is_none, is_some, option_map, reverse, unwrap_or};
ghost use Rattle.std.specs.Option.{option_and_then};
ghost use Rattle.mq_rules.specs.Words.{is_some_and};
ghost use Rattle.mq_rules.specs.Notes.{connack_of, disconnect_in, is_typed, received_fields, sent_disconnect};
ghost use Rattle.mq_rules.specs.Moments.{newest};
ghost use Rattle.mq_rules.specs.Connections.{connection, first_connack, is_connected as is_open_after};
ghost use Rattle.mq_rules.specs.KeepAlive as keeps;
ghost use Rattle.mq_plain.specs.Silences as silences;

use crate::connection::some_on_connection;
use crate::earliest::earliest_on_connection;
use crate::further::judging::PastStatement;
use crate::further::moments::{MomentTest, latest_moment, since_moment};
use crate::handshake::handshake_of;
use crate::lookback::{Never, NoteTest};
use mq_rules::{ConnackNote, ConnectNote, ItemNote, Note, Role, Rule, Seen};

/// A packet of more bytes may have taken its time.
const LARGE: u32 = 65_536;

/// The events with which the client is heard, where this end is tested: it sends something, or the
/// connection's first CONNACK comes.
#[derive(Drop)]
struct Heard(Role);

impl MomentTest for Heard {
    ghost use Rattle.mq_rules.specs.KeepAlive.{is_heard};

    ghost test = { λ t. is_heard t.0 };

    fn passes(&self, event: &Seen, before: &[Seen]) -> bool {
        is_from_client(self.0, &event.note) || is_first_connack(self.0, &event.note, before)
    }
}

/// The events at which the client has been silent for longer than it may, and with which it isn't
/// heard.
#[derive(Drop)]
struct StaysLonger(Role);

impl MomentTest for StaysLonger {
    ghost use Rattle.mq_plain.specs.Silences.{stays_longer};

    ghost test = { λ t. stays_longer t.0 };

    fn passes(&self, event: &Seen, before: &[Seen]) -> bool {
        is_longer(self.0, event, before) && !Heard(self.0).passes(event, before)
    }
}

/// The server's CONNACKs, where this end is tested.
#[derive(Drop)]
struct Connacks(Role);

impl NoteTest for Connacks {
    ghost use Rattle.std.specs.Prelude.{is_some};
    ghost use Rattle.mq_rules.specs.Notes.{connack_of};

    ghost test = { λ t n. is_some (connack_of t.0 n) };

    fn passes(&self, note: &Note) -> bool {
        note.connack(self.0).is_some()
    }
}

/// The events after which the client isn't listened to, where this end is tested: a DISCONNECT, or
/// what the client sends can't be cut into packets.
#[derive(Drop)]
struct EndsListening(Role);

impl NoteTest for EndsListening {
    ghost use Rattle.mq_rules.specs.KeepAlive.{ends_listening};

    ghost test = { λ t. ends_listening t.0 };

    fn passes(&self, note: &Note) -> bool {
        disconnects(note) || loses_client(self.0, note)
    }
}

/// K01: a client isn't silent for longer than the Keep Alive.
pub struct HeardInTime;

impl PastStatement for HeardInTime {
    ghost use Rattle.std.specs.Prelude.{refl};
    ghost use Rattle.mq_rules.specs.declared.rule.Rule.TheVariants.{K01};
    ghost use Rattle.mq_rules.specs.KeepAlive.{breaks_K01};

    ghost judged = { K01 };

    ghost breaks = { λ role. breaks_K01 };

    fn rule() -> Rule {
        Rule::K01
    }

    #[tactic(auto, unfolding(mq_rules::specs::KeepAlive::breaks_K01))]
    fn is_broken(_role: Role, event: &Seen, before: &[Seen]) -> bool {
        is_listened_to(Role::Client, before)
            && is_first_longer(Role::Client, event, before)
            && !may_be_late(&event.note)
    }

    ghost says = { λ role. refl };
}

/// K02: a server closes the connection of a client that is silent.
pub struct ClosedInTime;

impl PastStatement for ClosedInTime {
    ghost use Rattle.std.specs.Prelude.{refl};
    ghost use Rattle.mq_rules.specs.declared.rule.Rule.TheVariants.{K02};
    ghost use Rattle.mq_rules.specs.KeepAlive.{breaks_K02};

    ghost judged = { K02 };

    ghost breaks = { λ role. breaks_K02 };

    fn rule() -> Rule {
        Rule::K02
    }

    #[tactic(auto, unfolding(mq_rules::specs::KeepAlive::breaks_K02))]
    fn is_broken(_role: Role, event: &Seen, before: &[Seen]) -> bool {
        is_listened_to(Role::Server, before)
            && is_first_longer(Role::Server, event, before)
            && !takes_time(&event.note)
    }

    ghost says = { λ role. refl };
}

// ---- who is heard

// What the client sends with an event.
fn client_item(role: Role, note: &Note) -> Option<&ItemNote>
    ensures { option_map (λ item. item.now) result ≡ keeps.client_item role note.now }
{
    match role {
        Role::Client => note.sent_item(),
        Role::Server => note.received_item(),
    }
}

// Whether the client sends something.
fn is_from_client(role: Role, note: &Note) -> bool
    ensures { result ≡ is_some (keeps.client_item role note.now) }
{
    client_item(role, note).is_some()
}

// Whether it is the first CONNACK of its connection.
fn is_first_connack(role: Role, note: &Note, before: &[Seen]) -> bool
    ensures { result ≡ (is_some (connack_of role note.now) && is_none (first_connack role (connection (reverse before.now)))) }
{
    note.connack(role).is_some() && handshake_of(role, before).connack.is_none()
}

// Whether either end sends a DISCONNECT.
fn disconnects(note: &Note) -> bool
    ensures { result ≡ (is_some (sent_disconnect note.now) || is_some (option_and_then disconnect_in (received_fields note.now))) }
{
    note.sent_disconnect().is_some() || receives_disconnect(note)
}

// Whether a DISCONNECT is received.
fn receives_disconnect(note: &Note) -> bool
    ensures { result ≡ is_some (option_and_then disconnect_in (received_fields note.now)) }
{
    match note.received_fields() {
        Some(fields) => fields.disconnect().is_some(),
        None => false,
    }
}

// Whether the client sends what can't be cut into packets.
fn loses_client(role: Role, note: &Note) -> bool
    ensures { result ≡ is_some_and (λ item. not (is_typed item)) (keeps.client_item role note.now) }
{
    match client_item(role, note) {
        Some(item) => !item.is_typed(),
        None => false,
    }
}

// ---- the Keep Alive

// The Keep Alive of the latest connection, in seconds, by its first CONNACK; 0 before it.
fn keep_alive_of(role: Role, before: &[Seen]) -> u16
    ensures { result ≡ silences.keep_alive_after role (reverse before.now) }
{
    match earliest_on_connection(&Connacks(role), &Never, before) {
        Some(first) => keep_alive_by(role, first.event, first.before),
        None => 0,
    }
}

// What a CONNACK with these events before it makes of the Keep Alive; 0 for another event.
fn keep_alive_by(role: Role, event: &Seen, before: &[Seen]) -> u16
    ensures { result ≡ unwrap_or (keeps.keep_alive_by role (newest event.now (reverse before.now))) 0 }
{
    match event.note.connack(role) {
        Some(connack) => keep_alive_in(connack, handshake_of(role, before).connect),
        None => 0,
    }
}

// What a CONNACK makes of it, with the CONNECT that it answers.
fn keep_alive_in(connack: &ConnackNote, connect: Option<ConnectNote>) -> u16
    ensures { result ≡ cond (connack.now.code == 0) (unwrap_or connack.now.server_keep_alive (unwrap_or (option_map (λ c. c.keep_alive) connect) 0)) 0 }
{
    if connack.code != 0 {
        return 0;
    }
    match connack.server_keep_alive {
        Some(seconds) => seconds,
        None => asked_keep_alive(connect),
    }
}

// The Keep Alive that the client asks for.
fn asked_keep_alive(connect: Option<ConnectNote>) -> u16
    ensures { result ≡ unwrap_or (option_map (λ c. c.keep_alive) connect) 0 }
{
    match connect {
        Some(connect) => connect.keep_alive,
        None => 0,
    }
}

// Whether the client is listened to after these events.
fn is_listened_to(role: Role, before: &[Seen]) -> bool
    ensures { result ≡ silences.listens_after role (reverse before.now) }
{
    is_connected(before)
        && keep_alive_of(role, before) != 0
        && !some_on_connection(&EndsListening(role), before)
}

// Whether a connection is open after these events.
fn is_connected(before: &[Seen]) -> bool
    ensures { result ≡ is_open_after (reverse before.now) }
{
    let mut earlier = before;
    while let Some((event, rest)) = earlier.split_last() {
        if event.note.is_open() {
            return true;
        }
        if event.note.is_close() {
            return false;
        }
        earlier = rest;
    }
    false
}

// ---- silences

// For how long the client hasn't been heard on the latest connection at an event, in microseconds.
fn silence_at(role: Role, event: &Seen, before: &[Seen]) -> u64
    ensures { result ≡ keeps.silence role (newest event.now (reverse before.now)) }
{
    match latest_moment(&Heard(role), before) {
        Some(heard) => moments_since(event, heard.event),
        None => 0,
    }
}

// How much later one event is than another, in microseconds.
fn moments_since(event: &Seen, earlier: &Seen) -> u64
    ensures { result ≡ event.now.place.moment - earlier.now.place.moment }
{
    event.place.moment.saturating_sub(earlier.place.moment)
}

// For how long a client may be silent, or a server may leave it at that, in microseconds. Timers
// are late, and servers look now and then.
fn limit_of(role: Role, seconds: u16) -> u64
    ensures { result ≡ silences.limit_of role seconds }
{
    match role {
        Role::Client => u64::from(seconds) * 1_250_000 + 1_000_000,
        Role::Server => u64::from(seconds) * 1_500_000 + grace_of(seconds),
    }
}

// Half the Keep Alive, or five seconds if that is longer, in microseconds.
fn grace_of(seconds: u16) -> u64
    ensures value { result ≡ max (keeps.half seconds) 5000000 }
    ensures bound { result < 2 ^ 63 }
{
    (u64::from(seconds) * 500_000).max(5_000_000)
}

// Whether at an event the client has been silent for longer than it may.
fn is_longer(role: Role, event: &Seen, before: &[Seen]) -> bool
    ensures { result ≡ keeps.is_longer (silences.limit_of role) role (newest event.now (reverse before.now)) }
{
    limit_of(role, keep_alive_of(role, before)) < silence_at(role, event, before)
}

// Whether that is so for the first time in this silence.
fn is_first_longer(role: Role, event: &Seen, before: &[Seen]) -> bool
    ensures { result ≡ keeps.is_first_longer (silences.limit_of role) role (newest event.now (reverse before.now)) }
{
    is_longer(role, event, before) && !since_moment(&StaysLonger(role), &Heard(role), before)
}

// ---- events that may be late

// Whether what an event is may have taken its time, or been cut off.
fn may_be_late(note: &Note) -> bool
    ensures { result ≡ (keeps.takes_time note.now || keeps.cuts_packet note.now) }
{
    takes_time(note) || cuts_packet(note)
}

// Whether a packet is sent or received that is so large that it may have taken its time.
fn takes_time(note: &Note) -> bool
    ensures { result ≡ keeps.takes_time note.now }
{
    is_some_large(note.sent_item()) || is_some_large(note.received_item())
}

// Whether there is something, and it is so large.
fn is_some_large(item: Option<&ItemNote>) -> bool
    ensures { result ≡ is_some_and keeps.is_large_item (option_map (λ item. item.now) item.entry) }
{
    match item {
        Some(item) => is_large_item(item),
        None => false,
    }
}

// Whether it is so large.
fn is_large_item(item: &ItemNote) -> bool
    ensures { result ≡ keeps.is_large_item item.now }
{
    match item {
        ItemNote::Packet(packet) => packet.size > LARGE,
        ItemNote::Bad { is_large, .. } => *is_large,
        ItemNote::Lost => false,
    }
}

// Whether the end of the connection cuts off a packet that the tested end had begun to send.
fn cuts_packet(note: &Note) -> bool
    ensures { result ≡ keeps.cuts_packet note.now }
{
    match note {
        Note::Close { cuts_packet, .. } => *cuts_packet,
        _ => false,
    }
}
