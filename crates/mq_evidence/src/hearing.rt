//! When the client was last heard on the connection, and for how long it may be silent (MQTT 5.0,
//! section 3.1.2.10): the evidence of K01 and K02.
ghost use Rattle.std.specs.Prelude.{◌≡◌, ◌∷◌, ◌+◌, ◌-◌, ◌==◌, ◌&&◌, ◌||◌, [], List, None, Option, Some, cond, is_some, length, not, option_map, unwrap_or};
ghost use Rattle.std.specs.Option.{option_or};
ghost use Rattle.mq_rules.specs.declared.role.Role.{Role as TheRole};
ghost use Rattle.mq_rules.specs.declared.role.Role.TheVariants as roles;
ghost use Rattle.mq_rules.specs.declared.note.Note.{Note as TheNote};
ghost use Rattle.mq_rules.specs.declared.note.Seen.{Seen};
ghost use Rattle.mq_rules.specs.Notes.{connack_of, connect_of};
ghost use Rattle.mq_rules.specs.Connections.{connection};
ghost use Rattle.mq_rules.specs.Moments.{latest, newest, position};
ghost use Rattle.mq_rules.specs.KeepAlive as keeping;
ghost use Rattle.mq_rules.specs.Under.{seen};
ghost use Rattle.mq_rules.specs.declared.evidence.Numbers.TheVariants as numbers_of;
ghost use Rattle.mq_evidence.specs.Evidence as evidence;
ghost use Rattle.mq_evidence.specs.Hearing.{IsHearing, silence_evidence};

use crate::because::it_with;
use crate::handshake::is_connack;
use mq_log::Place3;
use mq_rules::{ConnackNote, Evidence, Note, Numbers, Role, client_limit, server_limit};

/// The Reason Code of a CONNACK that accepts the connection (MQTT 5.0, section 3.2.2.2).
const SUCCESS: u8 = 0x00;

/// Where and when the client was heard.
#[derive(Clone, Copy)]
pub struct Heard {
    /// The position of the event.
    position: u32,
    /// The moment of its record, in microseconds.
    moment: u64,
}

/// When the client was last heard on the connection, and its Keep Alive.
#[derive(Drop)]
pub struct Hearing {
    role: Role,
    /// The Keep Alive of the client's first CONNECT, in seconds.
    asked: Option<u16>,
    /// What the server's first CONNACK made of it.
    given: Option<u16>,
    /// Where and when the client was last heard.
    heard: Option<Heard>,
}

// Whether the client sends something with an event.
#[inline(always)]
fn is_from_client(role: Role, note: &Note) -> bool
    ensures { result ≡ is_some (keeping.client_item role note.now) }
{
    match role {
        Role::Client => matches!(note, Note::Sent(_)),
        Role::Server => matches!(note, Note::Recv(_)),
    }
}

// Whether the client is heard by an event: its connection's first CONNACK counts too.
#[inline(always)]
fn is_heard(role: Role, note: &Note, is_answered: bool) -> bool
    ensures { result ≡ (is_some (keeping.client_item role note.now) || (is_some (connack_of role note.now) && not is_answered)) }
{
    let sends = is_from_client(role, note);
    let answers = is_connack(role, note);
    sends || (answers && !is_answered)
}

// The Keep Alive that a CONNECT asks for.
fn asked_by(role: Role, note: &Note) -> Option<u16>
    ensures { result ≡ option_map (λ c. c.keep_alive) (connect_of role note.now) }
{
    match note.connect(role) {
        Some(connect) => Some(connect.keep_alive),
        None => None,
    }
}

// What a CONNACK makes of the Keep Alive that the client asked for.
fn given_in(connack: &ConnackNote, asked: Option<u16>) -> u16
    ensures { result ≡ cond (connack.now.code == 0) (unwrap_or connack.now.server_keep_alive (unwrap_or asked 0)) 0 }
{
    if connack.code != SUCCESS {
        return 0;
    }
    match connack.server_keep_alive {
        Some(seconds) => seconds,
        None => asked.unwrap_or(0),
    }
}

// The same of an event, if it is the server's CONNACK.
fn given_by(role: Role, note: &Note, asked: Option<u16>) -> Option<u16>
    ensures { result ≡ option_map (λ c. cond (c.code == 0) (unwrap_or c.server_keep_alive (unwrap_or asked 0)) 0) (connack_of role note.now) }
{
    match note.connack(role) {
        Some(connack) => Some(given_in(connack, asked)),
        None => None,
    }
}

// What is kept of the first event that has it, with one event more, which may begin a connection.
#[inline(always)]
fn first_after(opens: bool, old: Option<u16>, new: Option<u16>) -> Option<u16>
    ensures { result ≡ option_or (cond opens None old) new }
{
    let before = if opens { None } else { old };
    before.or(new)
}

// Where and when the client was last heard, with one event more.
#[inline(always)]
fn heard_after(opens: bool, hears: bool, at: Place3, old: Option<Heard>) -> Option<Heard>
    ensures { result ≡ cond hears (Some (record { position = at.position; moment = at.moment })) (cond opens None old) }
{
    if hears {
        return Some(Heard {
            position: at.position,
            moment: at.moment,
        });
    }
    if opens { None } else { old }
}

impl Hearing {
    /// Before any event; the tested end has this role.
    pub fn new(role: Role) -> Self
        ensures { IsHearing result role [] }
    {
        Hearing {
            role,
            asked: None,
            given: None,
            heard: None,
        }
    }

    /// Takes in the next event.
    pub fn take(&mut self, at: Place3, note: &Note)
        ensures { (role : TheRole) (past : List Seen) → at.position ≡ length past + 1 → IsHearing self.old role past → IsHearing self.new role (seen at note.now ∷ past) }
    {
        let role = self.role;
        let opens = note.is_open();
        let hears = is_heard(role, note, self.given.is_some());
        let given = given_by(role, note, self.asked);
        let asked = asked_by(role, note);
        self.heard = heard_after(opens, hears, at, self.heard);
        self.given = first_after(opens, self.given, given);
        self.asked = first_after(opens, self.asked, asked);
    }

    // The Keep Alive of the connection, in seconds; 0 before its CONNACK.
    fn seconds(&self) -> u16
        ensures { result ≡ unwrap_or self.now.given 0 }
    {
        self.given.unwrap_or(0)
    }

    // Where the client was last heard.
    fn position(&self) -> Option<u32>
        ensures { result ≡ option_map (λ h. h.position) self.now.heard }
    {
        match self.heard {
            Some(heard) => Some(heard.position),
            None => None,
        }
    }

    // For how long it hasn't been heard, in microseconds.
    fn silence(&self, at: Place3) -> u64
        ensures { result ≡ unwrap_or (option_map (λ h. at.moment - h.moment) self.now.heard) 0 }
    {
        match self.heard {
            Some(heard) => at.moment.saturating_sub(heard.moment),
            None => 0,
        }
    }

    // The same as evidence, with how long it may not be heard.
    fn because(&self, at: Place3, limit: u64) -> Evidence
        ensures { (role : TheRole) (note : TheNote) (past : List Seen) → IsHearing self.now role past
            → result ≡ evidence.it_with (latest (keeping.is_heard role) (connection past)) (numbers_of.Two (keeping.silence role (newest (seen at note) past)) limit) }
    {
        let silence = self.silence(at);
        it_with(self.position(), Numbers::Two(silence, limit))
    }

    /// Where the client was last heard, for how long it wasn't since, and for how long it may not
    /// be: K01.
    pub fn of_client(&self, at: Place3) -> Evidence
        ensures { (note : TheNote) (past : List Seen) → IsHearing self.now roles.Client past → result ≡ silence_evidence keeping.client_limit roles.Client (newest (seen at note) past) }
    {
        let limit = client_limit(self.seconds());
        self.because(at, limit)
    }

    /// Where the client was last heard, for how long it wasn't since, and for how long the server
    /// may leave it at that: K02.
    pub fn of_server(&self, at: Place3) -> Evidence
        ensures { (note : TheNote) (past : List Seen) → IsHearing self.now roles.Server past → result ≡ silence_evidence keeping.server_limit roles.Server (newest (seen at note) past) }
    {
        let limit = server_limit(self.seconds());
        self.because(at, limit)
    }
}
