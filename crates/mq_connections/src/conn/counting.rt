//! The watcher of C01 to C23 that counts how often each is put to the test: by harmless events, and
//! by all others.
ghost use Rattle.std.specs.Prelude.{◌≡◌, ◌∷◌, ◌+◌, ◌<◌, ◌&&◌, [], true, cond, length, List, Some, None, Option};
ghost use Rattle.mq_rules.specs.declared.role.Tested.{Tested as TheTested};
ghost use Rattle.mq_rules.specs.declared.fate.Fate.{Fate as TheFate};
ghost use Rattle.mq_rules.specs.declared.fate.Fate.TheVariants.{Void};
ghost use Rattle.mq_rules.specs.declared.note.Seen.{Seen as TheSeen};
ghost use Rattle.mq_rules.specs.Connections.{IsOnConnection};
ghost use Rattle.mq_rules.specs.Notes.{note_in};
ghost use Rattle.mq_rules.specs.Statements.{is_on_past};
ghost use Rattle.mq_rules.specs.Steps.{turns};
ghost use Rattle.mq_rules.specs.Under.{seen};
ghost use Rattle.mq_rules.specs.Occasions.{places};
ghost use Rattle.mq_rules.specs.Burden.{aliases_sent};
ghost use Rattle.mq_connections.specs.Weights.{conn_weighs};
ghost use Rattle.mq_connections.specs.Finding.{is_harmless as harmless, IsConn};
ghost use Rattle.mq_connections.specs.Trying.{IsTally};

use super::Conn;
use super::harmless::{is_bare_harmless, is_harmless};
use super::harmless_tests::{HarmlessPlaces, HarmlessTests};
use super::tally::ConnTally;
use mq_log::Place3;
use mq_rules::{Bare, Brisk, Faults, Memory, Note, NoteRef, Rule, Tested, Watch, step_apart};
use std::alloc::Global;

/// The watcher of C01 to C23, and how often each of them was put to the test.
#[derive(Drop)]
pub struct CountingConn {
    conn: Conn,
    /// By harmless events, which most are.
    harmless: HarmlessPlaces,
    /// By all others.
    others: ConnTally,
}

impl CountingConn {
    /// The watcher before the first event, for this tested end.
    pub fn new(alloc: Global, tested: Tested) -> Self
        ensures { ⟦<CountingConn as Watch>⟧.agrees result tested (Some Void) [] }
    {
        CountingConn {
            conn: Conn::new(alloc, tested),
            harmless: HarmlessPlaces::new(),
            others: ConnTally::new(),
        }
    }

    /// How many places a statement on the past of a connection has. None if it isn't one.
    pub fn places(&self, rule: Rule) -> Option<u32>
        ensures { (tested : TheTested) (taken : Option TheFate) (past : List TheSeen) → ⟦<CountingConn as Watch>⟧.agrees self.now tested taken past → result ≡ cond (is_on_past tested rule) (Some (places tested past rule)) None }
    {
        match self.others.places(rule) {
            Some(others) => Some(sum(others, self.harmless.places(rule))),
            None => None,
        }
    }

    // Counts what an event puts to the test, by what is kept before it.
    fn count(&mut self, at: Place3, note: &Note)
        ensures conn { self.new.conn ≡ self.old.conn }
        ensures counts { (tested : TheTested) (taken : Option TheFate) (past : List TheSeen) → IsConn self.old.conn tested taken past → at.position ≡ length past + 1 → IsTally self.old.others self.old.harmless tested past → IsTally self.new.others self.new.harmless tested (seen at note.now ∷ past) }
    {
        let event = NoteRef::Kept(note);
        if is_harmless(self.conn.bounds, note) {
            self.count_harmless(at.position, event);
            return;
        }
        self.others
            .count(self.conn.role, &self.conn.state, at, event);
    }

    // Counts what a harmless event puts to the test.
    #[inline(always)]
    fn count_harmless(&mut self, position: u32, event: NoteRef<'_>)
        ensures conn { self.new.conn ≡ self.old.conn }
        ensures counts { (tested : TheTested) (taken : Option TheFate) (past : List TheSeen) (e : TheSeen) → e.note ≡ note_in event.entry → harmless self.old.conn.bounds e.note ≡ true → IsConn self.old.conn tested taken past → position ≡ length past + 1 → IsTally self.old.others self.old.harmless tested past → IsTally self.new.others self.new.harmless tested (e ∷ past) }
    {
        if !event.is_packet_sent() {
            return;
        }
        let tests = HarmlessTests::of(self.conn.role, &self.conn.state, event);
        self.harmless.count(position, tests);
    }
}

// The sum of two counts.
fn sum(a: u32, b: u32) -> u32
    ensures { a + b < 4294967296 → result ≡ a + b }
{
    a.saturating_add(b)
}

impl Watch for CountingConn {
    ghost agrees = { λ s tested taken past. IsConn s.conn tested taken past × IsTally s.others s.harmless tested past × (length past < 4294967296) };

    ghost takes = { λ tested taken e past. IsOnConnection e past };

    ghost adds = { λ tested e past k r. is_on_past tested r && turns tested e past k r };

    ghost weighs = { λ s. conn_weighs s.conn };

    ghost bound = { λ tested taken past. aliases_sent past };

    fn step(&mut self, at: Place3, note: &Note, faults: &mut Faults) -> Result<(), Memory> {
        self.count(at, note);
        self.conn.step(at, note, faults)?;
        Ok(())
    }

    fn weight(&self) -> usize {
        self.conn.weight()
    }
}

impl Brisk for CountingConn {
    #[inline(always)]
    fn step_bare(&mut self, at: Place3, bare: Bare<'_>, faults: &mut Faults) -> Result<(), Memory> {
        if !is_bare_harmless(self.conn.bounds, bare) {
            step_apart(self, at, bare, faults)?;
            return Ok(());
        }
        self.count_harmless(at.position, NoteRef::Bare(bare));
        self.conn.step_bare(at, bare, faults)?;
        Ok(())
    }
}
