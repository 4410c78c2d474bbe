//! All statements, with their places counted or not.
ghost use Rattle.std.specs.Prelude.{◌≡◌, ◌∷◌, ◌+◌, ◌*◌, true, false, cond, [], List, length, Option, Some, None, OnOk, OnErr};
ghost use Rattle.mq_rules.specs.declared.fate.Fate.TheVariants.{Void};
ghost use Rattle.mq_rules.specs.declared.fate.Fate.{Fate as TheFate};
ghost use Rattle.mq_rules.specs.declared.role.Tested.{Tested as TheTested};
ghost use Rattle.mq_rules.specs.declared.note.Seen.{Seen as TheSeen};
ghost use Rattle.mq_rules.specs.Connections.{IsOnConnection, latest_fate};
ghost use Rattle.mq_rules.specs.Notes.{note_of_bare};
ghost use Rattle.mq_rules.specs.Under.{seen, Follows};
ghost use Rattle.mq_rules.specs.Growing.{Gains, GainsWithin};
ghost use Rattle.mq_rules.specs.Occasions.{places};
ghost use Rattle.mq_rules.specs.Statements.{is_on_bytes};
ghost use Rattle.mq_rules.specs.Steps.{turns};
ghost use Rattle.mq_watchers.specs.Burden.{burden};
ghost use Rattle.mq_watchers.specs.Kinds.{AgreesByKind, weighs_by_kind, is_counting as counts};

mod counting;
mod plain;

pub use counting::CountingWatchers;
use mq_log::Place3;
use mq_rules::{Bare, Brisk, Fate, Faults, Memory, Note, Rule, Tested, Watch, step_apart};
pub use plain::PlainWatchers;
use std::alloc::Global;

/// Watches all statements.
#[derive(Drop)]
pub enum Watchers {
    /// It finds their faults.
    Plain(PlainWatchers),
    /// It finds their faults, and counts how often they are put to the test.
    Counting(CountingWatchers),
}

impl Watchers {
    /// The watchers before the first event, for this tested end. They count nothing.
    pub fn new(alloc: Global, tested: Tested) -> Self
        ensures plain { counts result ≡ false }
        ensures agrees { ⟦<Watchers as Watch>⟧.agrees result tested (Some Void) [] }
    {
        Watchers::Plain(PlainWatchers::new(alloc, tested))
    }

    /// The same, which count how often each statement is put to the test.
    pub fn counting(alloc: Global, tested: Tested) -> Self
        ensures counts { counts result ≡ true }
        ensures agrees { ⟦<Watchers as Watch>⟧.agrees result tested (Some Void) [] }
    {
        Watchers::Counting(CountingWatchers::new(alloc, tested))
    }

    /// Whether they count how often each statement is put to the test.
    #[inline(always)]
    pub fn is_counting(&self) -> bool
        ensures { result ≡ counts self.now }
    {
        matches!(self, Watchers::Counting(_))
    }

    /// How many places a statement has in the log so far. None if places aren't counted, and for a
    /// statement on a packet's bytes.
    pub fn places(&self, rule: Rule) -> Option<u32>
        ensures plain { counts self.now ≡ false → result ≡ None }
        ensures counted { (tested : TheTested) (taken : Option TheFate) (past : List TheSeen) → counts self.now ≡ true → ⟦<Watchers as Watch>⟧.agrees self.now tested taken past → result ≡ cond (is_on_bytes tested rule) None (Some (places tested past rule)) }
    {
        match self {
            Watchers::Plain(_) => None,
            Watchers::Counting(watchers) => watchers.places(rule),
        }
    }

    /// What becomes of the latest connection (MQTT 5.0, section 3.2.2). None if it is undecided: it
    /// has no CONNACK and no CLOSE so far.
    pub fn latest_fate(&self) -> Option<Fate>
        ensures { (tested : TheTested) (taken : Option TheFate) (past : List TheSeen) → ⟦<Watchers as Watch>⟧.agrees self.now tested taken past → result ≡ latest_fate tested.role past }
    {
        match self {
            Watchers::Plain(watchers) => watchers.latest_fate(),
            Watchers::Counting(watchers) => watchers.latest_fate(),
        }
    }
}

impl Watchers {
    /// Takes in a bare packet by its numbers where places are counted, and else by a
    /// note that is made of it: so the quick way of a check isn't there a second time.
    ///
    /// # Errors
    ///
    /// As in `step`.
    pub fn step_counted(
        &mut self,
        at: Place3,
        bare: Bare<'_>,
        faults: &mut Faults,
    ) -> Result<(), Memory>
        ensures agrees { OnOk result ((tested : TheTested) (taken : Option TheFate) (past : List TheSeen) → Follows tested (seen at (note_of_bare bare.entry)) past → IsOnConnection (seen at (note_of_bare bare.entry)) past → ⟦<Watchers as Watch>⟧.agrees self.old tested taken past → ⟦<Watchers as Watch>⟧.agrees self.new tested (latest_fate tested.role (seen at (note_of_bare bare.entry) ∷ past)) (seen at (note_of_bare bare.entry) ∷ past)) }
        ensures grows { OnOk result ((tested : TheTested) (taken : Option TheFate) (past : List TheSeen) → Follows tested (seen at (note_of_bare bare.entry)) past → IsOnConnection (seen at (note_of_bare bare.entry)) past → ⟦<Watchers as Watch>⟧.agrees self.old tested taken past → Gains (turns tested (seen at (note_of_bare bare.entry)) past) tested (seen at (note_of_bare bare.entry) ∷ past) (length past + 1) faults.old faults.new) }
        ensures memory { OnErr result ((tested : TheTested) (taken : Option TheFate) (past : List TheSeen) → Follows tested (seen at (note_of_bare bare.entry)) past → IsOnConnection (seen at (note_of_bare bare.entry)) past → ⟦<Watchers as Watch>⟧.agrees self.old tested taken past → GainsWithin (turns tested (seen at (note_of_bare bare.entry)) past) tested (seen at (note_of_bare bare.entry) ∷ past) (length past + 1) faults.old faults.new) }
        ensures kind { counts self.new ≡ counts self.old }
    {
        match self {
            Watchers::Plain(watchers) => step_apart(watchers, at, bare, faults),
            Watchers::Counting(watchers) => watchers.step_bare(at, bare, faults),
        }
    }
}

impl Watch for Watchers {
    ghost agrees = { AgreesByKind ⟦<PlainWatchers as Watch>⟧.agrees ⟦<CountingWatchers as Watch>⟧.agrees };

    ghost takes = { λ tested taken e past. IsOnConnection e past };

    ghost adds = { turns };

    ghost weighs = { weighs_by_kind ⟦<PlainWatchers as Watch>⟧.weighs ⟦<CountingWatchers as Watch>⟧.weighs };

    ghost bound = { λ tested taken past. 4 * burden tested past };

    fn step(&mut self, at: Place3, note: &Note, faults: &mut Faults) -> Result<(), Memory>
        ensures agrees { OnOk result ((tested : TheTested) (taken : Option TheFate) (past : List TheSeen) → Follows tested (seen at note.now) past → IsOnConnection (seen at note.now) past → AgreesByKind ⟦<PlainWatchers as Watch>⟧.agrees ⟦<CountingWatchers as Watch>⟧.agrees self.old tested taken past → AgreesByKind ⟦<PlainWatchers as Watch>⟧.agrees ⟦<CountingWatchers as Watch>⟧.agrees self.new tested (latest_fate tested.role (seen at note.now ∷ past)) (seen at note.now ∷ past)) }
        ensures grows { OnOk result ((tested : TheTested) (taken : Option TheFate) (past : List TheSeen) → Follows tested (seen at note.now) past → IsOnConnection (seen at note.now) past → AgreesByKind ⟦<PlainWatchers as Watch>⟧.agrees ⟦<CountingWatchers as Watch>⟧.agrees self.old tested taken past → Gains (turns tested (seen at note.now) past) tested (seen at note.now ∷ past) (length past + 1) faults.old faults.new) }
        ensures memory { OnErr result ((tested : TheTested) (taken : Option TheFate) (past : List TheSeen) → Follows tested (seen at note.now) past → IsOnConnection (seen at note.now) past → AgreesByKind ⟦<PlainWatchers as Watch>⟧.agrees ⟦<CountingWatchers as Watch>⟧.agrees self.old tested taken past → GainsWithin (turns tested (seen at note.now) past) tested (seen at note.now ∷ past) (length past + 1) faults.old faults.new) }
        ensures kind { counts self.new ≡ counts self.old }
    {
        match self {
            Watchers::Plain(watchers) => watchers.step(at, note, faults),
            Watchers::Counting(watchers) => watchers.step(at, note, faults),
        }
    }

    fn weight(&self) -> usize {
        match self {
            Watchers::Plain(watchers) => watchers.weight(),
            Watchers::Counting(watchers) => watchers.weight(),
        }
    }
}

impl Brisk for Watchers {
    // Where places are counted, packets come by `step_counted`. So here they come by a note: what is
    // counted would else stand wherever packets are taken in.
    #[inline(always)]
    fn step_bare(&mut self, at: Place3, bare: Bare<'_>, faults: &mut Faults) -> Result<(), Memory>
        ensures agrees { OnOk result ((tested : TheTested) (taken : Option TheFate) (past : List TheSeen) → Follows tested (seen at (note_of_bare bare.entry)) past → IsOnConnection (seen at (note_of_bare bare.entry)) past → AgreesByKind ⟦<PlainWatchers as Watch>⟧.agrees ⟦<CountingWatchers as Watch>⟧.agrees self.old tested taken past → AgreesByKind ⟦<PlainWatchers as Watch>⟧.agrees ⟦<CountingWatchers as Watch>⟧.agrees self.new tested (latest_fate tested.role (seen at (note_of_bare bare.entry) ∷ past)) (seen at (note_of_bare bare.entry) ∷ past)) }
        ensures grows { OnOk result ((tested : TheTested) (taken : Option TheFate) (past : List TheSeen) → Follows tested (seen at (note_of_bare bare.entry)) past → IsOnConnection (seen at (note_of_bare bare.entry)) past → AgreesByKind ⟦<PlainWatchers as Watch>⟧.agrees ⟦<CountingWatchers as Watch>⟧.agrees self.old tested taken past → Gains (turns tested (seen at (note_of_bare bare.entry)) past) tested (seen at (note_of_bare bare.entry) ∷ past) (length past + 1) faults.old faults.new) }
        ensures memory { OnErr result ((tested : TheTested) (taken : Option TheFate) (past : List TheSeen) → Follows tested (seen at (note_of_bare bare.entry)) past → IsOnConnection (seen at (note_of_bare bare.entry)) past → AgreesByKind ⟦<PlainWatchers as Watch>⟧.agrees ⟦<CountingWatchers as Watch>⟧.agrees self.old tested taken past → GainsWithin (turns tested (seen at (note_of_bare bare.entry)) past) tested (seen at (note_of_bare bare.entry) ∷ past) (length past + 1) faults.old faults.new) }
        ensures kind { counts self.new ≡ counts self.old }
    {
        match self {
            Watchers::Plain(watchers) => watchers.step_bare(at, bare, faults),
            Watchers::Counting(watchers) => step_apart(watchers, at, bare, faults),
        }
    }
}
