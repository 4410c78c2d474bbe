//! All statements, of which faults are found and no places counted.
ghost use Rattle.std.specs.Prelude.{◌≡◌, ◌*◌, [], List, Option, Some};
ghost use Rattle.mq_rules.specs.declared.fate.Fate.TheVariants.{Void};
ghost use Rattle.mq_rules.specs.declared.fate.Fate.{Fate as TheFate};
ghost use Rattle.mq_rules.specs.declared.role.Tested.{Tested as TheTested};
ghost use Rattle.mq_rules.specs.declared.note.Seen.{Seen as TheSeen};
ghost use Rattle.mq_rules.specs.Connections.{IsOnConnection, latest_fate};
ghost use Rattle.mq_rules.specs.Steps.{turns};
ghost use Rattle.mq_watchers.specs.Burden.{burden};

use crate::sessions::Sessions;
use mq_connections::{Clocks, Conn, Duties, Manners, Shapes};
use mq_fates::Early;
use mq_log::Place3;
use mq_rules::{Bare, Both, Brisk, Fate, Faults, Memory, Note, Tested, Watch};
use std::alloc::Global;

/// Watches all statements, and counts nothing: W, C and the further statements as the events come,
/// and those on sessions once their connection is decided.
pub struct PlainWatchers {
    parts: Both<Shapes, Both<Conn, Both<Manners, Both<Duties, Both<Clocks, Early<Sessions>>>>>>,
}

// As a derived one, but a call of its own: what is to be freed is much, and else each function that
// drops watchers would spell it out.
impl Drop for PlainWatchers {
    #[inline(never)]
    fn drop(self) {
        let PlainWatchers { parts: _parts } = self;
    }
}

impl PlainWatchers {
    /// The watchers before the first event, for this tested end.
    pub fn new(alloc: Global, tested: Tested) -> Self
        ensures { ⟦<PlainWatchers as Watch>⟧.agrees result tested (Some Void) [] }
    {
        PlainWatchers {
            parts: Both::new(
                Shapes::new(tested),
                Both::new(
                    Conn::new(alloc, tested),
                    Both::new(
                        Manners::new(alloc, tested),
                        Both::new(
                            Duties::new(alloc, tested),
                            Both::new(
                                Clocks::new(tested),
                                Early::new(alloc, tested, Sessions::new(alloc, tested)),
                            ),
                        ),
                    ),
                ),
            ),
        }
    }

    /// What becomes of the latest connection. None if it is undecided.
    pub fn latest_fate(&self) -> Option<Fate>
        ensures { (tested : TheTested) (taken : Option TheFate) (past : List TheSeen) → ⟦<PlainWatchers as Watch>⟧.agrees self.now tested taken past → result ≡ latest_fate tested.role past }
    {
        self.parts.b.b.b.b.b.latest_fate()
    }
}

impl Watch for PlainWatchers {
    ghost agrees = { λ s. ⟦<Both<Shapes, Both<Conn, Both<Manners, Both<Duties, Both<Clocks, Early<Sessions>>>>>> as Watch>⟧.agrees s.parts };

    ghost takes = { λ tested taken e past. IsOnConnection e past };

    ghost adds = { turns };

    ghost weighs = { λ s. ⟦<Both<Shapes, Both<Conn, Both<Manners, Both<Duties, Both<Clocks, Early<Sessions>>>>>> as Watch>⟧.weighs s.parts };

    ghost bound = { λ tested taken past. 4 * burden tested past };

    fn step(&mut self, at: Place3, note: &Note, faults: &mut Faults) -> Result<(), Memory> {
        self.parts.step(at, note, faults)?;
        Ok(())
    }

    fn weight(&self) -> usize {
        self.parts.weight()
    }
}

impl Brisk for PlainWatchers {
    #[inline(always)]
    fn step_bare(&mut self, at: Place3, bare: Bare<'_>, faults: &mut Faults) -> Result<(), Memory> {
        self.parts.step_bare(at, bare, faults)?;
        Ok(())
    }
}
