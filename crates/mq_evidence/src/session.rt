//! Which events lie in a session, and where a session begins anew (MQTT 5.0, section 4.1).
ghost use Rattle.std.specs.Prelude.{◌≡◌, ◌∷◌, ◌||◌, ◌&&◌, [], ℕ, List, Some, length};
ghost use Rattle.mq_rules.specs.declared.role.Tested.{Tested};
ghost use Rattle.mq_rules.specs.declared.fate.Fate.{Fate as TheFate};
ghost use Rattle.mq_rules.specs.declared.fate.Fate.TheVariants.{Void};
ghost use Rattle.mq_rules.specs.declared.note.Seen.{Seen};
ghost use Rattle.mq_rules.specs.Notes.{is_open, is_release};
ghost use Rattle.mq_rules.specs.Connections.{accepts, is_void, begins, any_accepted};
ghost use Rattle.mq_rules.specs.Under.{seen, IsUnder, fate_before};
ghost use Rattle.mq_evidence.specs.Turning.{turn_of};

use crate::turn::Turn;
use mq_log::Place3;
use mq_rules::{Fate, Note};

/// What tells which events lie in the session: a RELEASE between connections, or on a void one,
/// belongs to the session of the latest accepted connection.
#[derive(Clone, Copy)]
pub struct Session {
    /// Whether a connection was accepted before.
    has_accepted: bool,
}

impl Session {
    /// Before any event.
    pub fn new() -> Self
        ensures { (tested : Tested) → result.has_accepted ≡ any_accepted tested.role (Some Void) [] }
    {
        Session {
            has_accepted: false,
        }
    }

    /// How the next event lies, on a connection that has this fate.
    pub fn turn(&self, at: Place3, fate: Fate, note: &Note) -> Turn
        ensures { result ≡ turn_of at.position fate note.now self.now.has_accepted }
    {
        let opens = note.is_open();
        Turn {
            position: at.position,
            begins: opens && fate.begins(),
            inside: fate.accepts() || (note.is_release() && (fate.is_void() && self.has_accepted)),
            opens,
        }
    }

    /// Takes in the event.
    pub fn take(&mut self, fate: Fate, note: &Note)
        ensures { self.new.has_accepted ≡ (self.old.has_accepted || (is_open note.now && accepts fate)) }
    {
        self.has_accepted = self.has_accepted || (note.is_open() && fate.accepts());
    }
}
