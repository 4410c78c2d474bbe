//! What is kept of the connections so far, to give the latest one its fate.
ghost use Rattle.std.specs.Prelude.{ℕ, ◌≡◌, ◌&&◌, ◌||◌, [], cond};
ghost use Rattle.mq_rules.specs.declared.role.Role.{Role as TheRole};
ghost use Rattle.mq_rules.specs.declared.fate.Fate.TheVariants as fates;
ghost use Rattle.mq_log.specs.declared.kind.Direction.TheVariants as directions;
ghost use Rattle.mq_rules.specs.Words.{is_some_and};
ghost use Rattle.mq_rules.specs.Notes.{is_acknowledged, received_publish, bare_note, bare_fields, note_of_bare};
ghost use Rattle.mq_rules.specs.Connections as connections;
ghost use Rattle.mq_rules.specs.Histories as histories;
ghost use Rattle.mq_rules.specs.Histories.{history, history_after};

use crate::bare::{Bare, BareFields};
use crate::connection_state::ConnectionState;
use crate::fate::Fate;
use crate::note::Note;
use crate::role::Role;
use mq_log::Direction;
use mq_packet::Qos;

/// What is kept of the connections so far, to give the latest one its fate: whether the server
/// accepted it, and whether the log tells which session it has.
#[derive(Clone, Copy, Debug, PartialEq, Eq)]
pub struct History {
    /// What is kept of the latest connection.
    pub connection: ConnectionState,
    /// Whether a connection was accepted.
    pub has_accepted: bool,
    /// Whether it can't be told which session the next connection resumes, if it resumes one.
    pub unsettled: bool,
    /// Whether it can't be told to which session a RELEASE belongs that comes on no accepted
    /// connection.
    pub adrift: bool,
    /// Whether the tested end received a packet on the latest connection that changes what a server
    /// keeps of a session.
    pub changed: bool,
    /// Whether the tested end sent something other than a DISCONNECT after the CONNACK of the
    /// latest connection.
    pub gone_on: bool,
}

impl History {
    /// What is kept before the first event.
    #[tactic(auto, unfolding(crate::specs::Histories::history))]
    pub fn new() -> Self
        ensures { (role : TheRole) → result ≡ history role [] }
    {
        History {
            connection: ConnectionState::new(),
            has_accepted: false,
            unsettled: false,
            adrift: false,
            changed: false,
            gone_on: false,
        }
    }

    /// Whether a bare packet leaves all this as it is.
    #[inline(always)]
    #[tactic(auto, unfolding(crate::specs::Notes::note_of_bare))]
    pub fn is_left_by(&self, bare: Bare<'_>) -> bool
        ensures { result ≡ histories.is_left_by self.now (note_of_bare bare.entry) }
    {
        match bare.direction {
            Direction::Sent => self.connection.has_sent && self.gone_on,
            Direction::Recv => {
                self.connection.has_sent && (self.changed || !fields_change_session(bare.fields))
            }
        }
    }

    /// The fate that an event gives to its connection, if it gives one.
    pub fn gives(&self, role: Role, note: &Note) -> Option<Fate>
        ensures { result ≡ histories.gives_now role self.now note.now }
    {
        match note.decides(role) {
            Some(fate) => Some(self.fate_by(role, note, fate)),
            None => None,
        }
    }

    // What an answer of the server makes of the connection.
    fn fate_by(&self, role: Role, note: &Note, answer: Fate) -> Fate
        ensures { result ≡ histories.fate_now role self.now note.now answer }
    {
        match answer {
            Fate::Void => self.unaccepted(role, note),
            Fate::New => self.begun(role),
            Fate::Resumed => self.resumed(role, note),
            other => other,
        }
    }

    // The fate of one that isn't accepted. The log may not tell what became of the session.
    fn unaccepted(&self, role: Role, note: &Note) -> Fate
        ensures { result ≡ cond (histories.adrift_next role self.now note.now) fates.Adrift fates.Void }
    {
        if self.is_adrift_after(role, note) {
            Fate::Adrift
        } else {
            Fate::Void
        }
    }

    // The fate of one that begins a session. The client may have asked for the one that it had.
    fn begun(&self, role: Role) -> Fate
        ensures { result ≡ cond (histories.asks_to_resume_now role self.now) fates.Forgotten fates.New }
    {
        if self.asks_to_resume(role) {
            Fate::Forgotten
        } else {
            Fate::New
        }
    }

    // The fate of one that resumes a session. The log may not tell which, and the client may have
    // asked for a new one, or had none.
    fn resumed(&self, role: Role, note: &Note) -> Fate
        ensures { result ≡ cond (histories.resumes_unknown_now role self.now note.now) fates.Unknown (cond (histories.has_none_now role self.now) fates.Unasked fates.Resumed) }
    {
        if self.resumes_unknown(role, note) {
            return Fate::Unknown;
        }
        if self.has_none(role) {
            return Fate::Unasked;
        }
        Fate::Resumed
    }

    // What the server has answered on the latest connection.
    fn answered(&self) -> Option<Fate>
        ensures { result ≡ histories.answered self.now }
    {
        if self.connection.has_begun {
            self.connection.fate
        } else {
            Some(Fate::Void)
        }
    }

    // Whether the server accepts the connection by this event.
    fn accepts(&self, role: Role, note: &Note) -> bool
        ensures { result ≡ histories.accepts_now role self.now note.now }
    {
        self.answered().is_none() && is_accepted(note.decides(role))
    }

    /// Whether a session begins by this event: the server accepts the connection, and doesn't
    /// resume a session, or none was accepted before (MQTT 5.0, section 4.1).
    pub fn begins(&self, role: Role, note: &Note) -> bool
        ensures { result ≡ histories.begins_now role self.now note.now }
    {
        self.accepts(role, note) && (is_new(note.decides(role)) || !self.has_accepted)
    }

    // Whether the session may have changed by what came on the connection, if it isn't answered.
    fn may_change(&self, role: Role) -> bool
        ensures { result ≡ histories.may_change_now role self.now }
    {
        match self.connection.connect {
            Some(connect) => match role {
                Role::Client => connect.clean_start,
                Role::Server => connect.clean_start || self.changed,
            },
            None => false,
        }
    }

    // Whether the connection closes by this event without a CONNACK, and the session may have
    // changed.
    fn disturbs(&self, role: Role, note: &Note) -> bool
        ensures { result ≡ histories.disturbs_now role self.now note.now }
    {
        note.is_close() && (self.answered().is_none() && self.may_change(role))
    }

    // Whether the client closes the connection by this event, on which it has got a new session
    // that it hadn't asked for, and used it for nothing.
    fn leaves(&self, role: Role, note: &Note) -> bool
        ensures { result ≡ histories.leaves_now role self.now note.now }
    {
        match role {
            Role::Server => false,
            Role::Client => {
                note.is_close()
                    && (is_new(self.answered())
                        && (self.asks_to_resume(Role::Client) && !self.gone_on))
            }
        }
    }

    // Whether the server resumes by this event a session that isn't known.
    fn resumes_unknown(&self, role: Role, note: &Note) -> bool
        ensures { result ≡ histories.resumes_unknown_now role self.now note.now }
    {
        self.accepts(role, note)
            && (is_resumed(note.decides(role)) && (self.has_accepted && self.unsettled))
    }

    // Whether the client asked for the session that it had.
    fn asks_to_resume(&self, role: Role) -> bool
        ensures { result ≡ histories.asks_to_resume_now role self.now }
    {
        match role {
            Role::Client => match self.connection.connect {
                Some(connect) => !connect.clean_start,
                None => false,
            },
            Role::Server => false,
        }
    }

    // Whether the client asked for a new session, or had none.
    fn has_none(&self, role: Role) -> bool
        ensures { result ≡ histories.has_none_now role self.now }
    {
        match role {
            Role::Client => self.asks_to_begin() || !self.connection.was_alive,
            Role::Server => false,
        }
    }

    // Whether the client asks for a new session by Clean Start 1.
    fn asks_to_begin(&self) -> bool
        ensures { result ≡ histories.asks_to_begin_now self.now }
    {
        match self.connection.connect {
            Some(connect) => connect.clean_start,
            None => false,
        }
    }

    // Whether the event sends something other than a DISCONNECT after the CONNACK.
    fn goes_on(&self, note: &Note) -> bool
        ensures { result ≡ histories.goes_on_now self.now note.now }
    {
        self.answered().is_some()
            && (note.sent_item().is_some() && !note.sent_disconnect().is_some())
    }

    // What `unsettled` is after the event: it lasts until a session begins.
    fn is_unsettled_after(&self, role: Role, note: &Note) -> bool
        ensures { result ≡ histories.unsettled_next role self.now note.now }
    {
        (self.disturbs(role, note) || self.leaves(role, note))
            || (!self.begins(role, note) && self.unsettled)
    }

    // What `adrift` is after the event: it lasts until a session begins.
    fn is_adrift_after(&self, role: Role, note: &Note) -> bool
        ensures { result ≡ histories.adrift_next role self.now note.now }
    {
        (self.disturbs(role, note) || self.resumes_unknown(role, note))
            || (!self.begins(role, note) && self.adrift)
    }

    /// Takes in one more event.
    pub fn consume(&mut self, role: Role, note: &Note)
        ensures { self.new ≡ history_after role self.old note.now }
    {
        let has_accepted = self.accepts(role, note) || self.has_accepted;
        let unsettled = self.is_unsettled_after(role, note);
        let adrift = self.is_adrift_after(role, note);
        let changed = changes_session(note) || (!note.is_open() && self.changed);
        let gone_on = self.goes_on(note) || (!note.is_open() && self.gone_on);
        self.connection.consume(role, note);
        self.has_accepted = has_accepted;
        self.unsettled = unsettled;
        self.adrift = adrift;
        self.changed = changed;
        self.gone_on = gone_on;
    }
}

// Whether there is an answer, and by it the server accepts the connection.
fn is_accepted(fate: Option<Fate>) -> bool
    ensures { result ≡ connections.accepted fate }
{
    match fate {
        Some(fate) => fate.accepts(),
        None => false,
    }
}

// Whether there is an answer, and by it the server resumes a session.
fn is_resumed(fate: Option<Fate>) -> bool
    ensures { result ≡ connections.resumed fate }
{
    match fate {
        Some(fate) => fate.resumes(),
        None => false,
    }
}

// Whether there is an answer, and by it the server begins a session.
fn is_new(fate: Option<Fate>) -> bool
    ensures { result ≡ connections.begins fate }
{
    is_accepted(fate) && !is_resumed(fate)
}

// Whether a packet with these fields and without properties, if it is received, changes what a
// server keeps of a session.
#[inline(always)]
fn fields_change_session(fields: BareFields<'_>) -> bool
    ensures { (size : ℕ) → result ≡ connections.changes_session (bare_note directions.Recv size (bare_fields directions.Recv fields.entry)) }
{
    match fields {
        BareFields::Publish { qos, .. } => is_answered(qos),
        BareFields::Pubrel { .. } => true,
        _ => false,
    }
}

// Whether the tested end received a packet that changes what a server keeps of a session.
fn changes_session(note: &Note) -> bool
    ensures { result ≡ connections.changes_session note.now }
{
    note.received_subscribe().is_some()
        || (note.received_unsubscribe().is_some()
            || (note.received_pubrel().is_some() || receives_acknowledged(note)))
}

// Whether the tested end received a PUBLISH of QoS above 0.
fn receives_acknowledged(note: &Note) -> bool
    ensures { result ≡ is_some_and (λ p. is_acknowledged p.qos) (received_publish note.now) }
{
    match note.received_publish() {
        Some(publish) => is_answered(publish.qos),
        None => false,
    }
}

// Whether a PUBLISH of this QoS is acknowledged (MQTT 5.0, section 4.3).
fn is_answered(qos: Qos) -> bool
    ensures { result ≡ is_acknowledged qos }
{
    match qos {
        Qos::AtMostOnce => false,
        Qos::AtLeastOnce | Qos::ExactlyOnce => true,
    }
}
