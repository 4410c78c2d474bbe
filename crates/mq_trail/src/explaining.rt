//! What the faults of a log conflict with: the log is read a second time to find that.
ghost use Rattle.std.specs.Prelude.{◌≡◌, ◌∷◌, ◌++◌, [], List, Option, Some, IfOk, IfSome, OnOk};
ghost use Rattle.std.specs.FinMap as map;
ghost use Rattle.mq_rules.specs.declared.role.Tested.{Tested as TheTested};
ghost use Rattle.mq_rules.specs.declared.fate.Fate.{Fate as TheFate};
ghost use Rattle.mq_rules.specs.declared.fate.Fate.TheVariants.{Void};
ghost use Rattle.mq_rules.specs.declared.note.Seen.{Seen};
ghost use Rattle.mq_choice.specs.Choices.{in_choice, wants_further};
ghost use Rattle.mq_trail.specs.Explaining.{AnswersFor, AreReasons, AreWanted, ExplainsOver};

use crate::comparing::{copy_of, same_end};
use crate::finding::evidence_of;
use crate::following::Follower;
use crate::introducing::Introducing;
use crate::rejudging::Rejudging;
use crate::reviewing::{Reviewing, Wanted};
use crate::second_reading::follow_reader;
use crate::until::Until;
use mq_choice::Choice;
use mq_evidence::{ConnectionExplaining, Explaining, Rests};
use mq_fates::Early;
use mq_log::Refusal;
use mq_report::Verdict;
use mq_rules::{Both, Evidence, Fault, FaultKey, Faults, Memory, Role, Tested, Watch};
use std::alloc::Global;
use std::io::Read;
use std::marker::Brand;

/// Why nothing is said of what the faults of a verdict conflict with.
#[derive(Clone, Copy, Debug, PartialEq, Eq)]
pub enum Unexplained {
    /// The log that is read again is refused, couldn't be read, or there was no memory to judge it.
    Refused(Refusal),
    /// The verdict on the log that is read again is another one.
    Changed,
    /// There was no memory for what the faults conflict with.
    Memory,
}

/// Reads a log again of which this was the verdict by the chosen statements, for this tested end,
/// and says of each fault, in their order, what it conflicts with. The log is judged again, and
/// nothing is said unless the verdict is the same. It reads at most 4,294,967,295 times, and at most
/// 8,192 bytes each time.
///
/// # Errors
///
/// `Refused` if the log is refused now: that is also `Read` if the reader fails, or hasn't ended
/// after the last turn, and `Memory` if there is no memory to judge it; `Changed` if the verdict on
/// it is another one; `Memory`.
pub fn explain_reader<R: Read>(
    alloc: Global,
    reader: &mut R,
    tested: Tested,
    choice: Choice,
    verdict: &Verdict,
) -> Result<Vec<Evidence>, Unexplained>
    requires { tested.further ≡ wants_further (in_choice choice) }
    ensures { IfSome (R.remaining reader.old) (λ log. ExplainsOver (in_choice choice) tested verdict.now.events (map.entries verdict.now.faults) log (R.remaining reader.new) result) }
{
    explain_as::<R, Brand>(alloc, reader, tested, choice, verdict)
}

// Explains the faults of the verdict, which are those that are picked.
fn explain_as<R: Read, K: Wanted>(
    alloc: Global,
    reader: &mut R,
    tested: Tested,
    choice: Choice,
    verdict: &Verdict,
) -> Result<Vec<Evidence>, Unexplained>
    requires wanted { K.wanted ≡ verdict.now.faults }
    requires further { tested.further ≡ wants_further (in_choice choice) }
    ensures { IfSome (R.remaining reader.old) (λ log. ExplainsOver (in_choice choice) tested verdict.now.events (map.entries verdict.now.faults) log (R.remaining reader.new) result) }
{
    let watcher = watcher_of::<K>(alloc, tested, &verdict.faults);
    explain_by(alloc, reader, tested, choice, watcher, verdict)
}

// Explains the faults of the verdict by this watcher, which is before any event, if there was
// memory for it. It is of any type, so that what it consists of and frees needn't be spelled out
// here.
fn explain_by<R: Read, W: Answers + Drop>(
    alloc: Global,
    reader: &mut R,
    tested: Tested,
    choice: Choice,
    watcher: Result<W, Memory>,
    verdict: &Verdict,
) -> Result<Vec<Evidence>, Unexplained>
    requires further { tested.further ≡ wants_further (in_choice choice) }
    requires sought { W.sought ≡ verdict.now.faults }
    requires agrees { IfOk watcher (λ w. W.agrees w tested (Some Void) []) }
    ensures { IfSome (R.remaining reader.old) (λ log. ExplainsOver (in_choice choice) tested verdict.now.events (map.entries verdict.now.faults) log (R.remaining reader.new) result) }
{
    match watcher {
        Ok(watcher) => match follow_reader(alloc, reader, tested, watcher) {
            Ok((reading, named)) => reading.answer(alloc, tested, named, choice, verdict),
            Err(refusal) => Err(Unexplained::Refused(refusal)),
        },
        Err(Memory) => Err(Unexplained::Memory),
    }
}

/// A watcher that judges a log again, and finds what the faults of its verdict conflict with.
pub trait Answers: Follower {
    ghost use Rattle.std.specs.Prelude.{◌≡◌};
    ghost use Rattle.mq_rules.specs.FaultKeys.{FaultMap};
    ghost use Rattle.mq_choice.specs.Choices.{in_choice, wants_further};

    /// The faults whose reasons it finds.
    ghost sought: { FaultMap };

    /// What each fault of the verdict conflicts with, once the log was read to its end, which names
    /// this tested end.
    ///
    /// # Errors
    ///
    /// `Changed` if the log's verdict is another one; `Memory`.
    fn answer(
        &self,
        alloc: Global,
        tested: Tested,
        named: Tested,
        choice: Choice,
        verdict: &Verdict,
    ) -> Result<Vec<Evidence>, Unexplained>
        requires sought { sought ≡ verdict.now.faults }
        requires further { tested.further ≡ wants_further (in_choice choice) }
        ensures { (taken : Option TheFate) (past : List Seen) → Self.agrees self.now tested taken past → AnswersFor (in_choice choice) tested named verdict.now.events (map.entries verdict.now.faults) past result };
}

impl<K: Wanted> Answers for Both<Rejudging, Until<Both<Introducing<K>, Early<Reviewing<K>>>, K>> {
    ghost sought = { K.wanted };

    fn answer(
        &self,
        alloc: Global,
        tested: Tested,
        named: Tested,
        choice: Choice,
        verdict: &Verdict,
    ) -> Result<Vec<Evidence>, Unexplained> {
        reasons_in(alloc, self, tested, named, choice, verdict)
    }
}

// What judges a log again, and explains these faults, before any event.
//
// Errors: `Memory` if there is no memory for the faults.
fn watcher_of<K: Wanted>(
    alloc: Global,
    tested: Tested,
    faults: &Faults,
) -> Result<Both<Rejudging, Until<Both<Introducing<K>, Early<Reviewing<K>>>, K>>, Memory>
    requires { K.wanted ≡ faults.now }
    ensures { IfOk result (λ watcher. ⟦<Both<Rejudging, Until<Both<Introducing<K>, Early<Reviewing<K>>>, K>> as Watch>⟧.agrees watcher tested (Some Void) []) }
{
    let introducing = introducing_of::<K>(alloc, tested, faults)?;
    let reviewing = reviewing_of::<K>(alloc, tested, faults)?;
    let rejudging = Rejudging::new(alloc, tested);
    let both = beside(introducing, reviewing);
    let explaining = Until::new(both, faults);
    Ok(beside(rejudging, explaining))
}

// Two watchers as one, before any event. They are of any types, so that what each keeps needn't be
// spelled out where they are put together.
fn beside<A: Watch, B: Watch>(a: A, b: B) -> Both<A, B>
    ensures { (tested : TheTested) → A.agrees a tested (Some Void) [] → B.agrees b tested (Some Void) [] → ⟦<Both<A, B> as Watch>⟧.agrees result tested (Some Void) [] }
{
    Both::new(a, b)
}

// What explains these faults on connections, before any event.
//
// Errors: `Memory` if there is no memory for the faults.
fn introducing_of<K: Wanted>(
    alloc: Global,
    tested: Tested,
    faults: &Faults,
) -> Result<Introducing<K>, Memory>
    requires { K.wanted ≡ faults.now }
    ensures { IfOk result (λ introducing. ⟦<Introducing<K> as Watch>⟧.agrees introducing tested (Some Void) []) }
{
    let rests = Rests::of(alloc, faults)?;
    let copy = copy_of(alloc, faults)?;
    let explaining = ConnectionExplaining::new(alloc, tested, copy);
    Ok(Introducing::new(explaining, rests))
}

// What explains these faults on sessions, before any event.
//
// Errors: `Memory` if there is no memory for the faults.
fn reviewing_of<K: Wanted>(
    alloc: Global,
    tested: Tested,
    faults: &Faults,
) -> Result<Early<Reviewing<K>>, Memory>
    requires { K.wanted ≡ faults.now }
    ensures { IfOk result (λ reviewing. ⟦<Early<Reviewing<K>> as Watch>⟧.agrees reviewing tested (Some Void) []) }
{
    let copy = copy_of(alloc, faults)?;
    let explaining = Explaining::new(alloc, tested, copy);
    let reviewing = Reviewing::<K>::new(explaining);
    Ok(Early::new(alloc, tested, reviewing))
}

// What each fault of the verdict conflicts with, once the log was read to its end, which names this
// tested end.
//
// Errors: `Changed` if the log's verdict is another one; `Memory`.
fn reasons_in<K: Wanted>(
    alloc: Global,
    reading: &Both<Rejudging, Until<Both<Introducing<K>, Early<Reviewing<K>>>, K>>,
    tested: Tested,
    named: Tested,
    choice: Choice,
    verdict: &Verdict,
) -> Result<Vec<Evidence>, Unexplained>
    requires wanted { K.wanted ≡ verdict.now.faults }
    requires further { tested.further ≡ wants_further (in_choice choice) }
    ensures { (taken : Option TheFate) (past : List Seen) → ⟦<Both<Rejudging, Until<Both<Introducing<K>, Early<Reviewing<K>>>, K>> as Watch>⟧.agrees reading.now tested taken past
        → AnswersFor (in_choice choice) tested named verdict.now.events (map.entries verdict.now.faults) past result }
{
    if !same_end(named, tested) {
        return Err(Unexplained::Changed);
    }
    match reading.a.finds(alloc, choice, verdict) {
        Ok(true) => {}
        Ok(false) => return Err(Unexplained::Changed),
        Err(Memory) => return Err(Unexplained::Memory),
    }
    match reasons_of(alloc, &reading.b, tested.role, &verdict.faults) {
        Ok(reasons) => Ok(reasons),
        Err(Memory) => Err(Unexplained::Memory),
    }
}

/// What finds the reasons of faults, once a log was read to its end.
pub trait Reasons {
    ghost use Rattle.std.specs.Prelude.{◌≡◌, List};
    ghost use Rattle.mq_rules.specs.declared.role.Tested.{Tested};
    ghost use Rattle.mq_rules.specs.declared.note.Seen.{Seen};
    ghost use Rattle.mq_rules.specs.FaultKeys.{FaultMap};
    ghost use Rattle.mq_trail.specs.Explaining.{IsReason, IsWanted};

    /// It has taken in these events, the newest first.
    ghost knows: { Self → Tested → List Seen → Type 0 };
    /// The faults whose reasons it finds.
    ghost wanted: { FaultMap };

    /// What a fault conflicts with, of the end in this role.
    fn reason(&self, role: Role, key: FaultKey, fault: Fault) -> Evidence
        ensures { (tested : Tested) (past : List Seen) → role ≡ tested.role → knows self.now tested past → IsWanted wanted tested past (key, fault) → IsReason tested past key result };
}

impl<K: Wanted> Reasons for Until<Both<Introducing<K>, Early<Reviewing<K>>>, K> {
    ghost use Rattle.std.specs.Prelude.{Option};
    ghost use Rattle.mq_rules.specs.declared.fate.Fate.{Fate};

    ghost knows = { λ s tested past. (taken : Option Fate) × ⟦<Until<Both<Introducing<K>, Early<Reviewing<K>>>, K> as Watch>⟧.agrees s tested taken past };

    ghost wanted = { K.wanted };

    fn reason(&self, role: Role, key: FaultKey, fault: Fault) -> Evidence {
        evidence_of(&self.watcher, role, key, fault)
    }
}

// What each of these faults conflicts with.
//
// Errors: `Memory` if there is no memory for it.
fn reasons_of<N: Reasons>(
    alloc: Global,
    reading: &N,
    role: Role,
    faults: &Faults,
) -> Result<Vec<Evidence>, Memory>
    ensures { (tested : TheTested) (past : List Seen) → role ≡ tested.role → N.knows reading.now tested past
        → AreWanted N.wanted tested past (map.entries faults.now) → IfOk result (λ reasons. AreReasons tested past (map.entries faults.now) reasons.items) }
{
    let mut reasons = Vec::new(alloc);
    for (key, fault) in faults.iter() {
        let reason = reading.reason(role, *key, *fault);
        add(&mut reasons, reason)?;
    }
    Ok(reasons)
}

// Adds one more.
//
// Errors: `Memory` if there is no memory for it.
fn add(reasons: &mut Vec<Evidence>, reason: Evidence) -> Result<(), Memory>
    ensures { OnOk result (reasons.new.items ≡ reasons.old.items ++ (reason ∷ [])) }
{
    reasons.push(reason)?;
    Ok(())
}
