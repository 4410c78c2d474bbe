//! What is known of one Packet Identifier when looking back over events.
ghost use Rattle.std.specs.Prelude.{◌≡◌, true};
ghost use Rattle.mq_plain.specs.Unanswered.{asking_at, answered};

/// What the later events of a connection say of one Packet Identifier.
#[derive(Clone, Copy)]
pub struct Slot {
    /// Whether one of them is an answer.
    pub is_answered: bool,
    /// The index of the first of them that is an unanswered cause.
    pub first: Option<usize>,
}

impl Slot {
    /// The slot with an event before the others, at this index, that is a cause.
    pub fn with_cause(self, index: usize) -> Slot
        ensures { result ≡ asking_at true index self }
    {
        if self.is_answered {
            return self;
        }
        Slot {
            is_answered: false,
            first: Some(index),
        }
    }

    /// The slot with an event before the others that is an answer.
    pub fn with_answer(self) -> Slot
        ensures { result ≡ answered true self }
    {
        Slot {
            is_answered: true,
            first: self.first,
        }
    }
}
