//! How often C01 to C23 are put to the test by events that aren't harmless.
ghost use Rattle.std.specs.Prelude.{◌≡◌, ◌∷◌, ◌+◌, ℕ, true, cond, length, List, Some, None};
ghost use Rattle.mq_rules.specs.declared.rule.Rule.{Rule as TheRule};
ghost use Rattle.mq_rules.specs.declared.role.Tested.{Tested as TheTested};
ghost use Rattle.mq_rules.specs.declared.note.Seen.{Seen as TheSeen};
ghost use Rattle.mq_rules.specs.Notes.{note_in};
ghost use Rattle.mq_rules.specs.Under.{seen};
ghost use Rattle.mq_rules.specs.Occasions.{places};
ghost use Rattle.mq_rules.specs.Keeping.{kept};
ghost use Rattle.mq_connections.specs.Trying.{is_tallied, tally_places};

use super::trying::{
    C01, C02, C03, C04, C05, C06, C07, C08, C09, C10, C11, C12, C13, C14, C15, C16, C17, C18, C19,
    C20, C21, C22, C23, Tried,
};
use mq_log::Place3;
use mq_rules::{ConnectionState, NoteRef, Role, Rule, places_after};

/// How often events have put each of C01 to C23 to the test, beside harmless events, whose places
/// are counted elsewhere.
#[derive(Clone, Copy)]
pub struct ConnTally {
    pub c01: u32,
    pub c02: u32,
    pub c03: u32,
    pub c04: u32,
    pub c05: u32,
    pub c06: u32,
    pub c07: u32,
    pub c08: u32,
    pub c09: u32,
    pub c10: u32,
    pub c11: u32,
    pub c12: u32,
    pub c13: u32,
    pub c14: u32,
    pub c15: u32,
    pub c16: u32,
    pub c17: u32,
    pub c18: u32,
    pub c19: u32,
    pub c20: u32,
    pub c21: u32,
    pub c22: u32,
    pub c23: u32,
}

// How many places a statement has after an event, by what is kept of those before it.
#[inline(always)]
fn counted<T: Tried>(
    old: u32,
    role: Role,
    state: &ConnectionState,
    at: Place3,
    event: NoteRef<'_>,
) -> u32
    ensures { (beside : ℕ) (tested : TheTested) (past : List TheSeen) → role ≡ tested.role → state.now ≡ kept tested.role past → at.position ≡ length past + 1 → old + beside ≡ places tested past T.rule → result + beside ≡ places tested (seen at (note_in event.entry) ∷ past) T.rule }
{
    places_after(T::is_tried(role, state, event), old, at.position)
}

impl ConnTally {
    /// The counts before any event.
    pub fn new() -> Self
        ensures { (rule : TheRule) → tally_places result rule ≡ 0 }
    {
        ConnTally {
            c01: 0,
            c02: 0,
            c03: 0,
            c04: 0,
            c05: 0,
            c06: 0,
            c07: 0,
            c08: 0,
            c09: 0,
            c10: 0,
            c11: 0,
            c12: 0,
            c13: 0,
            c14: 0,
            c15: 0,
            c16: 0,
            c17: 0,
            c18: 0,
            c19: 0,
            c20: 0,
            c21: 0,
            c22: 0,
            c23: 0,
        }
    }

    /// Counts the statements that an event puts to the test, by what is kept of those before it.
    #[inline(always)]
    pub fn count(&mut self, role: Role, state: &ConnectionState, at: Place3, event: NoteRef<'_>)
        ensures { (beside : TheRule → ℕ) (tested : TheTested) (past : List TheSeen) → role ≡ tested.role → state.now ≡ kept tested.role past → at.position ≡ length past + 1 → ((rule : TheRule) → is_tallied rule ≡ true → tally_places self.old rule + beside rule ≡ places tested past rule) → (rule : TheRule) → is_tallied rule ≡ true → tally_places self.new rule + beside rule ≡ places tested (seen at (note_in event.entry) ∷ past) rule }
    {
        self.c01 = counted::<C01>(self.c01, role, state, at, event);
        self.c02 = counted::<C02>(self.c02, role, state, at, event);
        self.c03 = counted::<C03>(self.c03, role, state, at, event);
        self.c04 = counted::<C04>(self.c04, role, state, at, event);
        self.c05 = counted::<C05>(self.c05, role, state, at, event);
        self.c06 = counted::<C06>(self.c06, role, state, at, event);
        self.c07 = counted::<C07>(self.c07, role, state, at, event);
        self.c08 = counted::<C08>(self.c08, role, state, at, event);
        self.c09 = counted::<C09>(self.c09, role, state, at, event);
        self.c10 = counted::<C10>(self.c10, role, state, at, event);
        self.c11 = counted::<C11>(self.c11, role, state, at, event);
        self.c12 = counted::<C12>(self.c12, role, state, at, event);
        self.c13 = counted::<C13>(self.c13, role, state, at, event);
        self.c14 = counted::<C14>(self.c14, role, state, at, event);
        self.c15 = counted::<C15>(self.c15, role, state, at, event);
        self.c16 = counted::<C16>(self.c16, role, state, at, event);
        self.c17 = counted::<C17>(self.c17, role, state, at, event);
        self.c18 = counted::<C18>(self.c18, role, state, at, event);
        self.c19 = counted::<C19>(self.c19, role, state, at, event);
        self.c20 = counted::<C20>(self.c20, role, state, at, event);
        self.c21 = counted::<C21>(self.c21, role, state, at, event);
        self.c22 = counted::<C22>(self.c22, role, state, at, event);
        self.c23 = counted::<C23>(self.c23, role, state, at, event);
    }

    /// How often they have put a statement to the test. None if it isn't one of C01 to C23.
    pub fn places(&self, rule: Rule) -> Option<u32>
        ensures { result ≡ cond (is_tallied rule) (Some (tally_places self.now rule)) None }
    {
        Some(match rule {
            Rule::C01 => self.c01,
            Rule::C02 => self.c02,
            Rule::C03 => self.c03,
            Rule::C04 => self.c04,
            Rule::C05 => self.c05,
            Rule::C06 => self.c06,
            Rule::C07 => self.c07,
            Rule::C08 => self.c08,
            Rule::C09 => self.c09,
            Rule::C10 => self.c10,
            Rule::C11 => self.c11,
            Rule::C12 => self.c12,
            Rule::C13 => self.c13,
            Rule::C14 => self.c14,
            Rule::C15 => self.c15,
            Rule::C16 => self.c16,
            Rule::C17 => self.c17,
            Rule::C18 => self.c18,
            Rule::C19 => self.c19,
            Rule::C20 => self.c20,
            Rule::C21 => self.c21,
            Rule::C22 => self.c22,
            Rule::C23 => self.c23,
            _ => return None,
        })
    }
}
