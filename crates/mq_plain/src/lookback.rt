//! Tests on one event, and looking back over events with them.

use mq_rules::Note;

/// A test on what the statements look at of one event.
pub trait NoteTest {
    ghost use Rattle.std.specs.Prelude.{◌≡◌, Bool};
    ghost use Rattle.mq_rules.specs.declared.note.Note.{Note};

    // The events that pass.
    ghost test: { Self → Note → Bool };

    /// Whether this event passes.
    fn passes(&self, note: &Note) -> bool
        ensures { result ≡ test self.now note.now };
}

/// No event passes.
#[derive(Drop)]
pub struct Never;

impl NoteTest for Never {
    ghost use Rattle.std.specs.Prelude.{false};

    ghost test = { λ t n. false };

    fn passes(&self, _note: &Note) -> bool {
        false
    }
}
