//! What a harmless event puts to the test: few of C01 to C23, by few facts of its connection.
ghost use Rattle.std.specs.Prelude.{◌≡◌, ◌+◌, ◌<◌, cond};
ghost use Rattle.mq_rules.specs.declared.rule.Rule.{Rule as TheRule};
ghost use Rattle.mq_rules.specs.Notes.{note_in};
ghost use Rattle.mq_connections.specs.Trying.{harmless_tests, harmless_places, tried_by_harmless};

use super::trying::{C01, C14, C17, C18, C21, Tried};
use mq_rules::{ConnectionState, NoteRef, Role, Rule, places_after};

/// What a harmless event puts to the test, by what is kept of its connection. All else that it
/// could is known not to be: the end may go on, and it sends what may be sent to any peer.
#[derive(Clone, Copy)]
pub struct HarmlessTests {
    /// C01: something is sent.
    pub sent: bool,
    /// C14: a packet is sent to a peer that announced a Maximum Packet Size.
    pub limited: bool,
    /// C17: a PUBLISH is sent to a server that announced a Maximum QoS.
    pub graded: bool,
    /// C18: a client sends a PUBLISH.
    pub published: bool,
    /// C21: a packet is sent to a client that asked for no explanations.
    pub silent: bool,
}

impl HarmlessTests {
    /// Those of an event after what is kept.
    #[inline(always)]
    pub fn of(role: Role, state: &ConnectionState, event: NoteRef<'_>) -> Self
        ensures { result ≡ harmless_tests role state.now (note_in event.entry) }
    {
        HarmlessTests {
            sent: C01::is_tried(role, state, event),
            limited: C14::is_tried(role, state, event),
            graded: C17::is_tried(role, state, event),
            published: C18::is_tried(role, state, event),
            silent: C21::is_tried(role, state, event),
        }
    }
}

/// How often harmless events have put statements to the test: each fact has a count of its own.
#[derive(Clone, Copy, Debug, PartialEq, Eq)]
pub struct HarmlessPlaces {
    /// Those of C01.
    pub sent: u32,
    /// Those of C14.
    pub limited: u32,
    /// Those of C17.
    pub graded: u32,
    /// Those of C18.
    pub published: u32,
    /// Those of C21.
    pub silent: u32,
}

impl HarmlessPlaces {
    /// The counts before any event.
    pub fn new() -> Self
        ensures { (rule : TheRule) → harmless_places result rule ≡ 0 }
    {
        HarmlessPlaces {
            sent: 0,
            limited: 0,
            graded: 0,
            published: 0,
            silent: 0,
        }
    }

    /// Counts what the event at this position puts to the test.
    #[inline(always)]
    pub fn count(&mut self, position: u32, tests: HarmlessTests)
        ensures { (rule : TheRule) → harmless_places self.old rule < position → harmless_places self.new rule ≡ cond (tried_by_harmless tests rule) 1 0 + harmless_places self.old rule }
    {
        self.sent = places_after(tests.sent, self.sent, position);
        self.limited = places_after(tests.limited, self.limited, position);
        self.graded = places_after(tests.graded, self.graded, position);
        self.published = places_after(tests.published, self.published, position);
        self.silent = places_after(tests.silent, self.silent, position);
    }

    /// How often a statement was put to the test by such events.
    pub fn places(&self, rule: Rule) -> u32
        ensures { result ≡ harmless_places self.now rule }
    {
        match rule {
            Rule::C01 => self.sent,
            Rule::C14 => self.limited,
            Rule::C17 => self.graded,
            Rule::C18 => self.published,
            Rule::C21 => self.silent,
            _ => 0,
        }
    }
}
