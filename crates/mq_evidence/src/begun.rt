//! The CONNACK that began the session (MQTT 5.0, sections 3.2 and 4.1): what a resend, a release or
//! an answer conflicts with, if what it is about didn't outlive its session.
ghost use Rattle.std.specs.Prelude.{◌≡◌, option_map};
ghost use Rattle.mq_rules.specs.declared.role.Role.{Role as TheRole};
ghost use Rattle.mq_rules.specs.Moments.{Moment, position};
ghost use Rattle.mq_evidence.specs.Evidence as evidence;
ghost use Rattle.mq_evidence.specs.Evidence.{earliest};
ghost use Rattle.mq_evidence.specs.Stretches.{Stretches, Comes, advanced, nothing_yet};
ghost use Rattle.mq_evidence.specs.Begun.{IsBegun};

use crate::handshake::is_connack;
use crate::tables::keep_once;
use crate::turn::Turn;
use mq_rules::{Note, Role};

/// Where the session's first CONNACK is.
#[derive(Drop)]
pub struct Begun {
    role: Role,
    connack: Option<u32>,
}

impl Begun {
    /// No CONNACK came; the tested end has this role.
    pub fn new(role: Role) -> Self
        ensures { IsBegun result role nothing_yet }
    {
        Begun {
            role,
            connack: None,
        }
    }

    /// Takes in the next event.
    pub fn take(&mut self, turn: Turn, note: &Note)
        ensures { (role : TheRole) (m : Moment) (s : Stretches) → Comes turn note.now m → IsBegun self.old role s → IsBegun self.new role (advanced turn m s) }
    {
        let Turn {
            position,
            begins,
            inside,
            opens: _,
        } = turn;
        let answers = is_connack(self.role, note);
        self.connack = keep_once(begins, inside, answers, position, self.connack);
    }

    /// The position of the session's first CONNACK.
    pub fn connack(&self) -> Option<u32>
        ensures { (role : TheRole) (s : Stretches) → IsBegun self.now role s → result ≡ option_map position (earliest (evidence.is_connack role) s.session) }
    {
        self.connack
    }
}
