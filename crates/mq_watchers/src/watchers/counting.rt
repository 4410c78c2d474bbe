//! All statements, of which faults are found and places counted, but for those on a packet's bytes.
ghost use Rattle.std.specs.Prelude.{◌≡◌, ◌*◌, cond, [], List, Option, Some, None};
ghost use Rattle.mq_rules.specs.declared.fate.Fate.TheVariants.{Void};
ghost use Rattle.mq_rules.specs.declared.fate.Fate.{Fate as TheFate};
ghost use Rattle.mq_rules.specs.declared.role.Tested.{Tested as TheTested};
ghost use Rattle.mq_rules.specs.declared.note.Seen.{Seen as TheSeen};
ghost use Rattle.mq_rules.specs.Connections.{IsOnConnection, latest_fate};
ghost use Rattle.mq_rules.specs.Occasions.{places};
ghost use Rattle.mq_rules.specs.Statements.{is_on_bytes};
ghost use Rattle.mq_rules.specs.Steps.{turns};
ghost use Rattle.mq_watchers.specs.Burden.{burden};

use crate::sessions::Sessions;
use mq_connections::{CountingClocks, CountingConn, CountingDuties, CountingManners, Shapes};
use mq_fates::{Asks, Counting, Early};
use mq_log::Place3;
use mq_rules::{Bare, Both, Brisk, Fate, Faults, Memory, Note, Rule, Tested, Watch};
use std::alloc::Global;

/// Watches all statements, as `PlainWatchers` does, and counts how often those on connections
/// and sessions are put to the test.
pub struct CountingWatchers {
    parts: Both<
        Shapes,
        Both<
            CountingConn,
            Both<
                CountingManners,
                Both<CountingDuties, Both<CountingClocks, Early<Counting<Sessions>>>>,
            >,
        >,
    >,
}

// As a derived one, but a call of its own.
impl Drop for CountingWatchers {
    #[inline(never)]
    fn drop(self) {
        let CountingWatchers { parts: _parts } = self;
    }
}

impl CountingWatchers {
    /// The watchers before the first event, for this tested end.
    pub fn new(alloc: Global, tested: Tested) -> Self
        ensures { ⟦<CountingWatchers as Watch>⟧.agrees result tested (Some Void) [] }
    {
        CountingWatchers {
            parts: Both::new(
                Shapes::new(tested),
                Both::new(
                    CountingConn::new(alloc, tested),
                    Both::new(
                        CountingManners::new(alloc, tested),
                        Both::new(
                            CountingDuties::new(alloc, tested),
                            Both::new(
                                CountingClocks::new(tested),
                                Early::new(
                                    alloc,
                                    tested,
                                    Counting::new(Sessions::new(alloc, tested)),
                                ),
                            ),
                        ),
                    ),
                ),
            ),
        }
    }

    /// How many places a statement has in the log so far. None if it is one on a packet's bytes.
    pub fn places(&self, rule: Rule) -> Option<u32>
        ensures { (tested : TheTested) (taken : Option TheFate) (past : List TheSeen) → ⟦<CountingWatchers as Watch>⟧.agrees self.now tested taken past → result ≡ cond (is_on_bytes tested rule) None (Some (places tested past rule)) }
    {
        let later = &self.parts.b;
        let further = &later.b;
        let timed = &further.b.b;
        if Sessions::tests(rule) {
            return Some(timed.b.places(rule));
        }
        let duties = &further.b.a;
        let clocks = &timed.a;
        duties.places(rule).or(
            clocks
                .places(rule)
                .or(further.a.places(rule).or(later.a.places(rule))),
        )
    }

    /// What becomes of the latest connection. None if it is undecided.
    pub fn latest_fate(&self) -> Option<Fate>
        ensures { (tested : TheTested) (taken : Option TheFate) (past : List TheSeen) → ⟦<CountingWatchers as Watch>⟧.agrees self.now tested taken past → result ≡ latest_fate tested.role past }
    {
        self.parts.b.b.b.b.b.latest_fate()
    }
}

impl Watch for CountingWatchers {
    ghost agrees = { λ s. ⟦<Both<Shapes, Both<CountingConn, Both<CountingManners, Both<CountingDuties, Both<CountingClocks, Early<Counting<Sessions>>>>>>> as Watch>⟧.agrees s.parts };

    ghost takes = { λ tested taken e past. IsOnConnection e past };

    ghost adds = { turns };

    ghost weighs = { λ s. ⟦<Both<Shapes, Both<CountingConn, Both<CountingManners, Both<CountingDuties, Both<CountingClocks, Early<Counting<Sessions>>>>>>> as Watch>⟧.weighs s.parts };

    ghost bound = { λ tested taken past. 4 * burden tested past };

    fn step(&mut self, at: Place3, note: &Note, faults: &mut Faults) -> Result<(), Memory> {
        self.parts.step(at, note, faults)?;
        Ok(())
    }

    fn weight(&self) -> usize {
        self.parts.weight()
    }
}

impl Brisk for CountingWatchers {
    // Not a call of its own: the packet's parts would be copied for it, and loaded again.
    #[inline(always)]
    fn step_bare(&mut self, at: Place3, bare: Bare<'_>, faults: &mut Faults) -> Result<(), Memory> {
        self.parts.step_bare(at, bare, faults)?;
        Ok(())
    }
}
