//! What is kept of the latest connection.
ghost use Rattle.std.specs.Prelude.{◌≡◌, ◌&&◌, ◌||◌, [], false, None, is_some, is_none};
ghost use Rattle.mq_rules.specs.declared.role.Role.{Role as TheRole};
ghost use Rattle.mq_rules.specs.Keeping.{kept, begun_if, followed, connection_after, is_ordinary as ordinary, is_ordinary_in, expiry, stays_alive as lives_on};
ghost use Rattle.mq_rules.specs.Words.{is_some_and};
ghost use Rattle.mq_rules.specs.Notes.{is_rest, is_release, sent_fields, received_fields};
ghost use Rattle.mq_rules.specs.Pasts.{is_sent_refusal};

use crate::fate::Fate;
use crate::note::{ItemNote, Note};
use crate::packet_note::{ConnackNote, ConnectNote, DisconnectNote, PacketFields};
use crate::role::Role;
use mq_packet::PacketType;

/// What is kept of the latest connection to judge its next event, except the Topic Aliases.
#[derive(Clone, Copy, Debug, PartialEq, Eq)]
pub struct ConnectionState {
    /// Whether a connection has begun.
    pub has_begun: bool,
    /// Whether the session is alive before this connection (MQTT 5.0, section 4.1).
    pub was_alive: bool,
    /// What became of the connection, if that is decided.
    pub fate: Option<Fate>,
    /// The client's first CONNECT.
    pub connect: Option<ConnectNote>,
    /// The server's first CONNACK.
    pub connack: Option<ConnackNote>,
    /// The client's first DISCONNECT.
    pub disconnect: Option<DisconnectNote>,
    /// Whether the tested end sent a packet, or bytes that break a rule.
    pub has_sent: bool,
    /// Whether the tested end sent an item of the type CONNECT.
    pub has_sent_connect: bool,
    /// Whether the tested end sent an item of the type CONNACK.
    pub has_sent_connack: bool,
    /// Whether the tested end received an item of the type CONNECT.
    pub has_received_connect: bool,
    /// Whether the tested end sent a DISCONNECT.
    pub has_sent_disconnect: bool,
    /// Whether the tested end sent a CONNACK that refuses.
    pub has_sent_refusal: bool,
}

impl ConnectionState {
    /// What is kept before the first event.
    #[tactic(auto, unfolding(crate::specs::Keeping::kept))]
    pub fn new() -> Self
        ensures { (role : TheRole) → result ≡ kept role [] }
    {
        Self::at_open(false, false)
    }

    // What is kept when nothing has come on the connection yet.
    fn at_open(has_begun: bool, was_alive: bool) -> Self
        ensures { result ≡ record { has_begun = has_begun; was_alive = was_alive; fate = None; connect = None; connack = None; disconnect = None; has_sent = false; has_sent_connect = false; has_sent_connack = false; has_received_connect = false; has_sent_disconnect = false; has_sent_refusal = false } }
    {
        ConnectionState {
            has_begun,
            was_alive,
            fate: None,
            connect: None,
            connack: None,
            disconnect: None,
            has_sent: false,
            has_sent_connect: false,
            has_sent_connack: false,
            has_received_connect: false,
            has_sent_disconnect: false,
            has_sent_refusal: false,
        }
    }

    /// Takes in one more event.
    #[inline]
    pub fn consume(&mut self, role: Role, note: &Note)
        ensures { self.new ≡ connection_after role self.old note.now }
    {
        if self.is_unchanged_by(note) {
            return;
        }
        self.begin_if(note.is_open());
        self.follow(role, note);
    }

    // A quick test that the event changes nothing: most are ordinary packets, after the first one
    // that is sent. A REST and a RELEASE are no packets.
    #[inline]
    fn is_unchanged_by(&self, note: &Note) -> bool
        ensures { result ≡ ((is_rest note.now || is_release note.now) || (self.now.has_sent && ordinary note.now)) }
    {
        (note.is_rest() || note.is_release())
            || (self.has_sent && (sends_ordinary(note) || receives_ordinary(note)))
    }

    // At an OPEN a new connection begins.
    #[inline]
    fn begin_if(&mut self, opens: bool)
        ensures { self.new ≡ begun_if opens self.old }
    {
        if opens {
            *self = Self::at_open(true, self.stays_alive());
        }
    }

    // Adds what an event says. Only the first CONNECT, CONNACK and DISCONNECT count.
    #[inline]
    fn follow(&mut self, role: Role, note: &Note)
        ensures { self.new ≡ followed role self.old note.now }
    {
        self.fate = self.fate.or(note.decides(role));
        self.connect = self.connect.or(note.connect(role).copied());
        self.connack = self.connack.or(note.connack(role).copied());
        self.disconnect = self.disconnect.or(note.client_disconnect(role));
        self.has_sent |= note.is_typed_sent();
        self.has_sent_connect |= note.sends_type(PacketType::Connect);
        self.has_sent_connack |= note.sends_type(PacketType::Connack);
        self.has_received_connect |= note.receives_type(PacketType::Connect);
        self.has_sent_disconnect |= note.sent_disconnect().is_some();
        self.has_sent_refusal |= sends_refusal(note);
    }

    // The Session Expiry Interval, in seconds: of the client's first DISCONNECT, else of the
    // CONNACK, else of the CONNECT, else 0 (MQTT 5.0, sections 3.1.2.11.2, 3.2.2.3.2 and
    // 3.14.2.2.2).
    fn expiry(&self) -> u32
        ensures { result ≡ expiry self.now }
    {
        let of_disconnect = self
            .disconnect
            .and_then(|disconnect| disconnect.session_expiry);
        let of_connack = self.connack.and_then(|connack| connack.session_expiry);
        let of_connect = self.connect.and_then(|connect| connect.session_expiry);
        of_disconnect.or(of_connack).or(of_connect).unwrap_or(0)
    }

    // Whether the session is alive after the connection (MQTT 5.0, section 4.1): the connection was
    // accepted with a Session Expiry Interval other than 0; or it wasn't accepted, and the session
    // was alive before; or it had a CONNECT and no CONNACK, so that the server may have accepted
    // it.
    fn stays_alive(&self) -> bool
        ensures { result ≡ lives_on self.now }
    {
        if !self.has_begun {
            return false;
        }
        match self.fate {
            Some(fate) if fate.accepts() => self.expiry() != 0,
            _ => self.may_be_accepted() || self.was_alive,
        }
    }

    // Whether a CONNECT came and no CONNACK.
    fn may_be_accepted(&self) -> bool
        ensures { result ≡ (is_some self.now.connect && is_none self.now.connack) }
    {
        self.connect.is_some() && self.connack.is_none()
    }
}

// Whether the tested end sent a packet other than CONNECT, CONNACK and DISCONNECT.
#[inline]
fn sends_ordinary(note: &Note) -> bool
    ensures { result ≡ is_some_and is_ordinary_in (sent_fields note.now) }
{
    match note {
        Note::Sent(ItemNote::Packet(packet)) => is_ordinary(&packet.fields),
        _ => false,
    }
}

// Whether the tested end received a packet other than CONNECT, CONNACK and DISCONNECT.
#[inline]
fn receives_ordinary(note: &Note) -> bool
    ensures { result ≡ is_some_and is_ordinary_in (received_fields note.now) }
{
    match note {
        Note::Recv(ItemNote::Packet(packet)) => is_ordinary(&packet.fields),
        _ => false,
    }
}

/// Whether a packet is neither a CONNECT nor a CONNACK nor a DISCONNECT.
#[inline]
pub fn is_ordinary(fields: &PacketFields) -> bool
    ensures { result ≡ is_ordinary_in fields.now }
{
    !matches!(
        fields,
        PacketFields::Connect { .. } | PacketFields::Connack { .. } | PacketFields::Disconnect(_)
    )
}

// Whether the tested end sent a CONNACK that refuses.
#[inline]
fn sends_refusal(note: &Note) -> bool
    ensures { result ≡ is_sent_refusal note.now }
{
    match note.sent_connack() {
        Some(connack) => connack.refuses(),
        None => false,
    }
}
