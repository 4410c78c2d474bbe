//! How a connection began and ended (MQTT 5.0, sections 3.1, 3.2 and 3.14): the evidence of C03,
//! C06, C07, C10 to C17, and C20 to C23.
ghost use Rattle.std.specs.Prelude.{◌≡◌, [], List, None, cond, is_some, option_map, true};
ghost use Rattle.std.specs.Option.{option_and_then, option_or};
ghost use Rattle.mq_packet.specs.declared.packet.PacketType.TheVariants as types;
ghost use Rattle.mq_rules.specs.declared.role.Role.{Role as TheRole};
ghost use Rattle.mq_rules.specs.Notes.{connect_of, connack_of, sends_type, sent_packet, sent_publish, sent_disconnect, qos_number as number_of_qos};
ghost use Rattle.mq_rules.specs.Moments.{Moment, position};
ghost use Rattle.mq_rules.specs.Connections.{first_connack};
ghost use Rattle.mq_rules.specs.Pasts as pasts;
ghost use Rattle.mq_evidence.specs.Evidence as evidence;
ghost use Rattle.mq_evidence.specs.Evidence.{earliest};
ghost use Rattle.mq_evidence.specs.Stretches.{Stretches, Comes, advanced, longer, nothing_yet};
ghost use Rattle.mq_evidence.specs.Handshakes.{IsHandshake, IsFirstSent, IsGreetings, first_on, peer_on, announced_size, announced_alias, announced_receive, size_evidence, alias_evidence, used_evidence, qos_evidence, expiry_evidence, quota_evidence};

use crate::because::{from_short, from_word, if_announced, it, it_with, one_of, two_of, two_with};
use crate::passing::passes_handshake;
use crate::tables::keep_once;
use crate::turn::Turn;
use mq_packet::PacketType;
use mq_rules::{ConnackNote, ConnectNote, Evidence, Note, Role, qos_number};

/// The Maximum QoS of a server that announces none (MQTT 5.0, section 3.2.2.3.4).
const MAXIMUM_QOS: u64 = 2;

/// The Receive Maximum of a peer that announces none (MQTT 5.0, sections 3.1.2.11.3 and 3.2.2.3.3).
const RECEIVE_MAXIMUM: u64 = 65_535;

/// Where on the connection the tested end first sent what it sends once.
#[derive(Drop)]
pub struct FirstSent {
    /// A CONNECT, by its type: bytes that break a rule count too.
    connect: Option<u32>,
    /// A CONNACK, likewise.
    connack: Option<u32>,
    /// A DISCONNECT.
    disconnect: Option<u32>,
    /// A CONNACK of 0x80 or more.
    refusal: Option<u32>,
    /// What the tested end sends before it closes the connection.
    last: Option<u32>,
}

/// The client's first CONNECT on the connection, and the server's first CONNACK.
#[derive(Drop)]
pub struct Greetings {
    connect_at: Option<u32>,
    connect: Option<ConnectNote>,
    connack_at: Option<u32>,
    connack: Option<ConnackNote>,
}

/// How the connection began and ended.
#[derive(Drop)]
pub struct Handshake {
    role: Role,
    sent: FirstSent,
    greetings: Greetings,
}

// Whether a DISCONNECT is sent.
fn is_sent_disconnect(note: &Note) -> bool
    ensures { result ≡ pasts.is_sent_disconnect note.now }
{
    note.sent_disconnect().is_some()
}

// Whether a CONNACK of 0x80 or more is sent.
fn is_sent_refusal(note: &Note) -> bool
    ensures { result ≡ pasts.is_sent_refusal note.now }
{
    match note.sent_connack() {
        Some(connack) => connack.refuses(),
        None => false,
    }
}

// Whether the tested end sends what it sends before it closes the connection.
fn is_last_sent(role: Role, note: &Note) -> bool
    ensures { result ≡ pasts.is_last_sent role note.now }
{
    match role {
        Role::Client => is_sent_disconnect(note),
        Role::Server => is_sent_disconnect(note) || is_sent_refusal(note),
    }
}

// Whether it is the client's CONNECT.
fn is_connect(role: Role, note: &Note) -> bool
    ensures { result ≡ is_some (connect_of role note.now) }
{
    match note.connect(role) {
        Some(_) => true,
        None => false,
    }
}

/// Whether it is the server's CONNACK.
pub fn is_connack(role: Role, note: &Note) -> bool
    ensures { result ≡ is_some (connack_of role note.now) }
{
    match note.connack(role) {
        Some(_) => true,
        None => false,
    }
}

// The client's first CONNECT after an event, which may begin a connection.
fn connect_after(
    over: bool,
    role: Role,
    note: &Note,
    old: Option<ConnectNote>,
) -> Option<ConnectNote>
    ensures { result ≡ option_or (cond over None old) (connect_of role note.now) }
{
    let before = if over { None } else { old };
    before.or(note.connect(role).copied())
}

// The server's first CONNACK, likewise.
fn connack_after(
    over: bool,
    role: Role,
    note: &Note,
    old: Option<ConnackNote>,
) -> Option<ConnackNote>
    ensures { result ≡ option_or (cond over None old) (connack_of role note.now) }
{
    let before = if over { None } else { old };
    before.or(note.connack(role).copied())
}

// How many bytes the packet has that is sent.
fn size_sent(note: &Note) -> Option<u64>
    ensures { result ≡ option_map (λ p. p.size) (sent_packet note.now) }
{
    match note.sent_packet() {
        Some(packet) => Some(u64::from(packet.size)),
        None => None,
    }
}

// The Topic Alias of the PUBLISH that is sent.
fn alias_sent(note: &Note) -> Option<u64>
    ensures { result ≡ option_and_then (λ p. p.topic_alias) (sent_publish note.now) }
{
    match note.sent_publish() {
        Some(publish) => from_short(publish.topic_alias),
        None => None,
    }
}

// The Topic Alias of the PUBLISH that is sent, if that stands for its Topic Name.
fn alias_used(note: &Note) -> Option<u64>
    ensures { result ≡ pasts.used_alias note.now }
{
    match note.sent_publish() {
        Some(publish) => {
            if publish.topic.is_empty() {
                return from_short(publish.topic_alias);
            }
            None
        }
        None => None,
    }
}

// The QoS of the PUBLISH that is sent.
fn qos_sent(note: &Note) -> Option<u64>
    ensures { result ≡ option_map (λ p. number_of_qos p.qos) (sent_publish note.now) }
{
    match note.sent_publish() {
        Some(publish) => Some(u64::from(qos_number(publish.qos))),
        None => None,
    }
}

// The Session Expiry Interval of the DISCONNECT that is sent.
fn expiry_sent(note: &Note) -> Option<u64>
    ensures { result ≡ option_and_then (λ d. d.session_expiry) (sent_disconnect note.now) }
{
    match note.sent_disconnect() {
        Some(disconnect) => from_word(disconnect.session_expiry),
        None => None,
    }
}

impl FirstSent {
    // Nothing was sent.
    fn new(role: Role) -> Self
        ensures { IsFirstSent result role [] }
    {
        FirstSent {
            connect: None,
            connack: None,
            disconnect: None,
            refusal: None,
            last: None,
        }
    }

    // Takes in the next event.
    fn take(&mut self, turn: Turn, role: Role, note: &Note)
        ensures { (tested : TheRole) (m : Moment) (ms : List Moment) → role ≡ tested → Comes turn note.now m → IsFirstSent self.old tested ms → IsFirstSent self.new tested (longer turn.opens true m ms) }
    {
        let Turn {
            position,
            begins: _,
            inside: _,
            opens,
        } = turn;
        let connects = note.sends_type(PacketType::Connect);
        let answers = note.sends_type(PacketType::Connack);
        let disconnects = is_sent_disconnect(note);
        let refuses = is_sent_refusal(note);
        let ends = is_last_sent(role, note);
        self.connect = keep_once(opens, true, connects, position, self.connect);
        self.connack = keep_once(opens, true, answers, position, self.connack);
        self.disconnect = keep_once(opens, true, disconnects, position, self.disconnect);
        self.refusal = keep_once(opens, true, refuses, position, self.refusal);
        self.last = keep_once(opens, true, ends, position, self.last);
    }
}

impl Greetings {
    // Nothing came.
    fn new(role: Role) -> Self
        ensures { IsGreetings result role [] }
    {
        Greetings {
            connect_at: None,
            connect: None,
            connack_at: None,
            connack: None,
        }
    }

    // Takes in the next event.
    fn take(&mut self, turn: Turn, role: Role, note: &Note)
        ensures { (tested : TheRole) (m : Moment) (ms : List Moment) → role ≡ tested → Comes turn note.now m → IsGreetings self.old tested ms → IsGreetings self.new tested (longer turn.opens true m ms) }
    {
        let Turn {
            position,
            begins: _,
            inside: _,
            opens,
        } = turn;
        let asks = is_connect(role, note);
        let answers = is_connack(role, note);
        self.connect_at = keep_once(opens, true, asks, position, self.connect_at);
        self.connect = connect_after(opens, role, note, self.connect);
        self.connack_at = keep_once(opens, true, answers, position, self.connack_at);
        self.connack = connack_after(opens, role, note, self.connack);
    }

    // Where the peer announced what it takes.
    fn peer_at(&self, role: Role) -> Option<u32>
        ensures { (ms : List Moment) → IsGreetings self.now role ms → result ≡ option_map position (peer_on role ms) }
    {
        match role {
            Role::Client => self.connack_at,
            Role::Server => self.connect_at,
        }
    }

    // The Maximum Packet Size that it announced.
    fn maximum_size(&self, role: Role) -> Option<u64>
        ensures { (ms : List Moment) → IsGreetings self.now role ms → result ≡ announced_size role ms }
    {
        match role {
            Role::Client => from_word(self.connack.and_then(|a| a.maximum_packet_size)),
            Role::Server => from_word(self.connect.and_then(|c| c.maximum_packet_size)),
        }
    }

    // The Topic Alias Maximum that it announced.
    fn maximum_alias(&self, role: Role) -> Option<u64>
        ensures { (ms : List Moment) → IsGreetings self.now role ms → result ≡ announced_alias role ms }
    {
        match role {
            Role::Client => from_short(self.connack.and_then(|a| a.topic_alias_maximum)),
            Role::Server => from_short(self.connect.and_then(|c| c.topic_alias_maximum)),
        }
    }

    // The Receive Maximum that it announced.
    fn maximum_receive(&self, role: Role) -> Option<u64>
        ensures { (ms : List Moment) → IsGreetings self.now role ms → result ≡ announced_receive role ms }
    {
        match role {
            Role::Client => from_short(self.connack.and_then(|a| a.receive_maximum)),
            Role::Server => from_short(self.connect.and_then(|c| c.receive_maximum)),
        }
    }

    // The Maximum QoS that the server announced.
    fn maximum_qos(&self) -> Option<u64>
        ensures { (role : TheRole) (ms : List Moment) → IsGreetings self.now role ms → result ≡ option_and_then (λ a. a.maximum_qos) (first_connack role ms) }
    {
        match self.connack.and_then(|a| a.maximum_qos) {
            Some(most) => Some(u64::from(most)),
            None => None,
        }
    }

    // C14.
    fn size(&self, role: Role, note: &Note) -> Evidence
        ensures { (ms : List Moment) → IsGreetings self.now role ms → result ≡ size_evidence role note.now ms }
    {
        let size = size_sent(note);
        let most = self.maximum_size(role);
        let peer = self.peer_at(role);
        it_with(peer, two_of(size, most))
    }

    // C15.
    fn alias(&self, role: Role, note: &Note) -> Evidence
        ensures { (ms : List Moment) → IsGreetings self.now role ms → result ≡ alias_evidence role note.now ms }
    {
        let alias = alias_sent(note);
        let most = self.maximum_alias(role);
        let peer = self.peer_at(role);
        it_with(if_announced(most, peer), two_with(alias, most, 0))
    }

    // S07, where so many PUBLISHes are in flight.
    fn quota(&self, role: Role, in_flight: u64) -> Evidence
        ensures { (ms : List Moment) → IsGreetings self.now role ms → result ≡ quota_evidence role in_flight ms }
    {
        let most = self.maximum_receive(role);
        let peer = self.peer_at(role);
        it_with(
            if_announced(most, peer),
            two_with(Some(in_flight), most, RECEIVE_MAXIMUM),
        )
    }
}

impl Handshake {
    /// Nothing came; the tested end has this role.
    pub fn new(role: Role) -> Self
        ensures { IsHandshake result role nothing_yet }
    {
        Handshake {
            role,
            sent: FirstSent::new(role),
            greetings: Greetings::new(role),
        }
    }

    /// Takes in the next event.
    pub fn take(&mut self, turn: Turn, note: &Note)
        ensures { (role : TheRole) (m : Moment) (s : Stretches) → Comes turn note.now m → IsHandshake self.old role s → IsHandshake self.new role (advanced turn m s) }
    {
        if passes_handshake(turn, note) {
            return;
        }
        let role = self.role;
        self.sent.take(turn, role, note);
        self.greetings.take(turn, role, note);
    }

    /// The CONNECT that was sent first: C03.
    pub fn connect_sent(&self) -> Evidence
        ensures { (role : TheRole) (s : Stretches) → IsHandshake self.now role s → result ≡ evidence.it (first_on (sends_type types.Connect) s.connection) }
    {
        it(self.sent.connect)
    }

    /// The CONNACK that was sent first: C06.
    pub fn connack_sent(&self) -> Evidence
        ensures { (role : TheRole) (s : Stretches) → IsHandshake self.now role s → result ≡ evidence.it (first_on (sends_type types.Connack) s.connection) }
    {
        it(self.sent.connack)
    }

    /// The client's CONNECT: C07, C10, C21 and C22; F05, F06 and A01 to A03.
    pub fn connect(&self) -> Evidence
        ensures { (role : TheRole) (s : Stretches) → IsHandshake self.now role s → result ≡ evidence.it (earliest (evidence.is_connect role) s.connection) }
    {
        it(self.greetings.connect_at)
    }

    /// The DISCONNECT that was sent first: C11.
    pub fn disconnect(&self) -> Evidence
        ensures { (role : TheRole) (s : Stretches) → IsHandshake self.now role s → result ≡ evidence.it (first_on pasts.is_sent_disconnect s.connection) }
    {
        it(self.sent.disconnect)
    }

    /// The refusing CONNACK that was sent first: C12.
    pub fn refusal(&self) -> Evidence
        ensures { (role : TheRole) (s : Stretches) → IsHandshake self.now role s → result ≡ evidence.it (first_on pasts.is_sent_refusal s.connection) }
    {
        it(self.sent.refusal)
    }

    /// The server's CONNACK: C13, F01 to F04, and S06 at the REST that shows it.
    pub fn connack(&self) -> Evidence
        ensures { (role : TheRole) (s : Stretches) → IsHandshake self.now role s → result ≡ evidence.it (earliest (evidence.is_connack role) s.connection) }
    {
        it(self.greetings.connack_at)
    }

    /// Where the peer announced its Maximum Packet Size, the size of the packet that is sent, and
    /// that maximum, in bytes: C14.
    pub fn size(&self, note: &Note) -> Evidence
        ensures { (role : TheRole) (s : Stretches) → IsHandshake self.now role s → result ≡ size_evidence role note.now s.connection }
    {
        self.greetings.size(self.role, note)
    }

    /// Where the peer announced its Topic Alias Maximum, the Topic Alias that is sent, and that
    /// maximum: C15.
    pub fn alias(&self, note: &Note) -> Evidence
        ensures { (role : TheRole) (s : Stretches) → IsHandshake self.now role s → result ≡ alias_evidence role note.now s.connection }
    {
        self.greetings.alias(self.role, note)
    }

    /// The Topic Alias that is used and wasn't set: C16.
    pub fn unset_alias(note: &Note) -> Evidence
        ensures { result ≡ used_evidence note.now }
    {
        let alias = alias_used(note);
        it_with(None, one_of(alias))
    }

    /// The CONNACK, the QoS of the PUBLISH that is sent, and the server's Maximum QoS: C17.
    pub fn qos(&self, note: &Note) -> Evidence
        ensures { (role : TheRole) (s : Stretches) → IsHandshake self.now role s → result ≡ qos_evidence role note.now s.connection }
    {
        let qos = qos_sent(note);
        let most = self.greetings.maximum_qos();
        it_with(self.greetings.connack_at, two_with(qos, most, MAXIMUM_QOS))
    }

    /// The CONNECT, and the Session Expiry Interval of the DISCONNECT that is sent, in seconds:
    /// C20.
    pub fn expiry(&self, note: &Note) -> Evidence
        ensures { (role : TheRole) (s : Stretches) → IsHandshake self.now role s → result ≡ expiry_evidence role note.now s.connection }
    {
        let expiry = expiry_sent(note);
        it_with(self.greetings.connect_at, one_of(expiry))
    }

    /// What the tested end sent before it is to close the connection: C23.
    pub fn last(&self) -> Evidence
        ensures { (role : TheRole) (s : Stretches) → IsHandshake self.now role s → result ≡ evidence.it (first_on (pasts.is_last_sent role) s.connection) }
    {
        it(self.sent.last)
    }

    /// Where the peer announced its Receive Maximum, how many PUBLISHes are in flight with this
    /// one, and that maximum: S07.
    pub fn quota(&self, in_flight: u64) -> Evidence
        ensures { (role : TheRole) (s : Stretches) → IsHandshake self.now role s → result ≡ quota_evidence role in_flight s.connection }
    {
        self.greetings.quota(self.role, in_flight)
    }
}
