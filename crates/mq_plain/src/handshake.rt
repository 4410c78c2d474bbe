//! The CONNECT and the CONNACK of the latest connection, and what the peer announced there.
ghost use Rattle.std.specs.Prelude.{◌≡◌, reverse};
ghost use Rattle.mq_plain.specs.Handshakes as begun;

use mq_rules::{ConnackNote, ConnectNote, Note, Role, Seen};

/// The Receive Maximum of a peer that announces none (MQTT 5.0, sections 3.1.2.11.3 and 3.2.2.3.3).
const RECEIVE_MAXIMUM: u16 = 65_535;

/// The CONNECT and the CONNACK of a connection.
#[derive(Clone, Copy)]
pub struct Handshake {
    /// The client's first CONNECT.
    pub connect: Option<ConnectNote>,
    /// The server's first CONNACK.
    pub connack: Option<ConnackNote>,
}

/// The CONNECT and the CONNACK of the latest connection of these events.
pub fn handshake_of(role: Role, before: &[Seen]) -> Handshake
    ensures { result ≡ begun.handshake role (reverse before.now) }
{
    let mut earlier = before;
    let mut found = Handshake {
        connect: None,
        connack: None,
    };
    while let Some((event, rest)) = earlier.split_last() {
        found = found.after(role, &event.note);
        if event.note.is_open() {
            return found;
        }
        earlier = rest;
    }
    found
}

impl Handshake {
    ghost use Rattle.std.specs.Option.{option_or};
    ghost use Rattle.mq_rules.specs.Notes.{connect_of, connack_of};

    // The handshake with an event that comes before all of it.
    fn after(self, role: Role, note: &Note) -> Handshake
        ensures { result ≡ record { connect = option_or (connect_of role note.now) self.connect; connack = option_or (connack_of role note.now) self.connack } }
    {
        Handshake {
            connect: note.connect(role).copied().or(self.connect),
            connack: note.connack(role).copied().or(self.connack),
        }
    }

    /// How many PUBLISHes of QoS above 0 the peer takes before it acknowledges one: its Receive
    /// Maximum.
    pub fn receive_maximum(&self, role: Role) -> u16
        ensures { result ≡ begun.receive_maximum_in role self.now }
    {
        let announced = match role {
            Role::Client => self.connack.and_then(|connack| connack.receive_maximum),
            Role::Server => self.connect.and_then(|connect| connect.receive_maximum),
        };
        announced.unwrap_or(RECEIVE_MAXIMUM)
    }

    /// Whether what comes next counts against the peer's Receive Maximum. A client knows that only
    /// after the CONNACK.
    pub fn counts(&self, role: Role) -> bool
        ensures { result ≡ begun.counts_after role self.now }
    {
        match role {
            Role::Client => self.connack.is_some(),
            Role::Server => true,
        }
    }

    /// Whether the peer announced a Maximum Packet Size or a Maximum QoS, whatever its value.
    pub fn bounds_sending(&self, role: Role) -> bool
        ensures { result ≡ begun.bounds_sending role self.now }
    {
        match role {
            Role::Client => match self.connack {
                Some(connack) => {
                    connack.maximum_packet_size.is_some() || connack.maximum_qos.is_some()
                }
                None => false,
            },
            Role::Server => match self.connect {
                Some(connect) => connect.maximum_packet_size.is_some(),
                None => false,
            },
        }
    }

    /// Whether the peer announced that it takes no PUBLISH with RETAIN 1.
    pub fn refuses_retained(&self, role: Role) -> bool
        ensures { result ≡ begun.refuses_retained role self.now }
    {
        match role {
            Role::Client => match self.connack {
                Some(connack) => connack.retain_available == Some(0),
                None => false,
            },
            Role::Server => false,
        }
    }
}
