//! The CONNACK of the last accepted connection before the latest one (MQTT 5.0, sections 3.2 and
//! 4.1): the evidence of C08.
ghost use Rattle.std.specs.Prelude.{◌≡◌, ◌∷◌, ◌&&◌, ◌||◌, [], cond, is_some, not};
ghost use Rattle.mq_rules.specs.declared.role.Role.{Role as TheRole};
ghost use Rattle.mq_rules.specs.Moments.{Moment};
ghost use Rattle.mq_rules.specs.Connections as connections;
ghost use Rattle.mq_evidence.specs.Evidence as evidence;
ghost use Rattle.mq_evidence.specs.Evidence.{accepted_before};
ghost use Rattle.mq_evidence.specs.Stretches.{Comes};
ghost use Rattle.mq_evidence.specs.Accepted.{IsAccepted};

use crate::because::it;
use crate::tables::keep_again;
use crate::turn::Turn;
use mq_rules::{Evidence, Fate, Note, Role};

/// Where connections were accepted.
#[derive(Drop)]
pub struct Accepted {
    role: Role,
    /// Whether it is decided what becomes of the latest connection.
    decided: bool,
    /// Where a connection was accepted last.
    last: Option<u32>,
    /// The same, of those before the latest one.
    before: Option<u32>,
}

// Whether a connection is accepted by an answer, if that is the first one.
fn accepts_first(decided: bool, answer: Option<Fate>) -> bool
    ensures { result ≡ (not decided && connections.accepted answer) }
{
    match answer {
        Some(fate) => !decided && fate.accepts(),
        None => false,
    }
}

// Whether the latest connection is decided after an event, which may begin it or decide it.
fn decided_after(opens: bool, decided: bool, answer: Option<Fate>) -> bool
    ensures { result ≡ (not opens && (decided || is_some answer)) }
{
    !opens && (decided || answer.is_some())
}

// The last accepted connection before the latest one, with an event that may begin a connection.
fn before_at(opens: bool, last: Option<u32>, before: Option<u32>) -> Option<u32>
    ensures { result ≡ cond opens last before }
{
    if opens { last } else { before }
}

impl Accepted {
    /// No connection was accepted; the tested end has this role.
    pub fn new(role: Role) -> Self
        ensures { IsAccepted result role [] }
    {
        // Before the first connection there is nothing to wait for.
        Accepted {
            role,
            decided: true,
            last: None,
            before: None,
        }
    }

    /// Takes in the next event.
    pub fn take(&mut self, turn: Turn, note: &Note)
        ensures { (role : TheRole) (m : Moment) → Comes turn note.now m → IsAccepted self.old role m.past → IsAccepted self.new role (m.event ∷ m.past) }
    {
        let opens = note.is_open();
        let answer = note.decides(self.role);
        let accepts = accepts_first(self.decided, answer);
        self.before = before_at(opens, self.last, self.before);
        self.last = keep_again(false, true, accepts, turn.position, self.last);
        self.decided = decided_after(opens, self.decided, answer);
    }

    /// The CONNACK of the last accepted connection before that of the next event, which has this
    /// note: C08.
    pub fn earlier(&self, note: &Note) -> Evidence
        ensures { (role : TheRole) (k : Moment) → k.event.note ≡ note.now → IsAccepted self.now role k.past → result ≡ evidence.it (accepted_before role k) }
    {
        let opens = note.is_open();
        it(before_at(opens, self.last, self.before))
    }
}
