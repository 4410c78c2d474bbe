//! The judge: it is fed a log, in any pieces, and returns the verdict on it.
ghost use Rattle.mq_watchers.specs.Burden.{burden};
ghost use Rattle.std.specs.Prelude.{◌≡◌, true, false, cond, ◌≤◌, ◌*◌, ℕ, List, [], nat_lt, length, Some, None, Err, IfErr, IfOk, IfSome, OnOk, if◌then◌else◌};
ghost use Rattle.mq_choice.specs.Choices.{in_choice, wants_further};
ghost use Rattle.mq_judge.specs.Coverage.{places_in, coverage_of};
ghost use Rattle.mq_judge.specs.Unjudged.{unjudged_of};
ghost use Rattle.mq_judge.specs.Judging.{is_counting, Knows, Follows, FollowsBy, JudgesPiece, JudgesPieceBy, TakesEvents, AreFaultsOf, Ends, Finishes};
ghost use Rattle.mq_judge.specs.Watching.{IsWatching, IsTallying, watchers_weigh};
ghost use Rattle.mq_log.specs.Events.{events};
ghost use Rattle.mq_watchers.specs.Kinds.{is_counting as counts};
ghost use Rattle.mq_rules.specs.Weights.{in_word};
ghost use Rattle.mq_rules.specs.Notes.{tested_by, seen_in};
ghost use Rattle.mq_trace.specs.Tracing.{IsTracedTo};

use super::coverage::coverage;
use super::watching::{End, Judging, Watching};
use mq_choice::Choice;
use mq_log::Refusal;
use mq_report::{Covered, DEFAULT_LIMIT, Gap, Verdict};
use mq_rules::{Faults, Further, Memory, Role, Rule, Tested};
use mq_trace::Tracer;
use std::alloc::Global;
use std::marker::Brand;

/// Options of a judge.
#[derive(Clone, Copy, Debug, PartialEq, Eq)]
pub struct Options {
    /// The largest packet that is read, in bytes: 5 to 268,435,460.
    pub limit: u32,
    /// Which of the further statements are judged too, beside those that always are.
    pub further: Further,
}

impl Default for Options {
    ghost use Rattle.mq_rules.specs.Rules.{none_further};
    ghost use Rattle.mq_report.specs.Stopping.{default_limit};

    ghost is_default = { λ options. (options.limit ≡ default_limit) × (options.further ≡ none_further) };

    fn default() -> Self {
        Options {
            limit: DEFAULT_LIMIT,
            further: Further::NONE,
        }
    }
}

/// The verdict on a log of which places were counted.
#[derive(Drop)]
pub(crate) struct CoveredVerdict {
    pub verdict: Verdict,
    /// How often each statement was put to the test. Nothing, if there was no memory for it.
    pub rows: Option<Vec<Covered>>,
    /// What wasn't judged. Nothing, if there was no memory for it.
    pub gaps: Option<Vec<Gap>>,
}

/// Judges one log.
///
/// # Examples
///
/// ```
/// let mut judge = Judge::new(rt.alloc(), Options::default());
/// judge.feed(b"MQTR\x01\x00\x01\x00\x01\x00")?;
/// judge.feed(b"\x00\x00\x00\x04\x00\x00\x00\x00")?;
/// assert!(rt; judge.role() == Some(Role::Client));
/// let verdict = judge.finish()?;
/// assert_eq!(rt; verdict.events, 2);
/// assert!(rt; verdict.faults.is_empty());
/// ```
#[derive(Drop)]
pub struct Judge {
    limit: u32,
    further: Further,
    tracer: Tracer,
    judging: Judging<Brand>,
}

impl Judge {
    /// A judge that has been fed nothing.
    pub fn new(alloc: Global, options: Options) -> Self
        ensures follows { Follows result [] }
        ensures limit { result.limit ≡ options.limit }
        ensures further { result.further ≡ options.further }
        ensures counts { is_counting result ≡ false }
    {
        Judge::start(alloc, options, false)
    }

    /// The same, which counts how often each statement is put to the test. That takes longer.
    pub fn counting(alloc: Global, options: Options) -> Self
        ensures follows { Follows result [] }
        ensures limit { result.limit ≡ options.limit }
        ensures further { result.further ≡ options.further }
        ensures counts { is_counting result ≡ true }
    {
        Judge::start(alloc, options, true)
    }

    // A judge that has been fed nothing, and counts places or doesn't.
    fn start(alloc: Global, options: Options, counting: bool) -> Self
        ensures follows { Follows result [] }
        ensures limit { result.limit ≡ options.limit }
        ensures further { result.further ≡ options.further }
        ensures counts { is_counting result ≡ counting }
    {
        // Until the log's header is whole, it doesn't matter which end this is.
        let tested = Tested {
            role: Role::Client,
            releases: false,
            further: options.further,
        };
        Judge {
            limit: options.limit,
            further: options.further,
            tracer: Tracer::new(alloc, options.limit),
            judging: Judging::new(Watching::new(alloc, tested, counting)),
        }
    }

    /// The largest packet that is read, in bytes.
    pub fn limit(&self) -> u32
        ensures { result ≡ self.now.limit }
    {
        self.limit
    }

    /// How many places a statement has in the log so far: at how many positions it is put to the
    /// test. None if the judge doesn't count them. After a refusal it says nothing of the log.
    pub fn places(&self, rule: Rule) -> Option<u32>
        ensures plain { is_counting self.now ≡ false → result ≡ None }
        ensures counted { (log : List ℕ) → is_counting self.now ≡ true → Follows self.now log → result ≡ Some (places_in self.now.further log rule) }
    {
        let watching = &self.judging.watching;
        if !watching.is_counting() {
            return None;
        }
        Some(watching.places(rule))
    }

    /// Which end is judged, once the log's header is whole. After a refusal it is what the bytes
    /// before the refused one say.
    pub fn role(&self) -> Option<Role>
        ensures { (taken : List ℕ) → Knows self.now taken → result ≡ (if nat_lt (length taken) 8 then None else Some (tested_by self.now.further taken).role) }
    {
        let header = self.tracer.header()?;
        Some(Tested::of(header, self.further).role)
    }

    /// The faults that are known: those of the events so far, each with the event that shows it.
    /// What is known stays, whatever comes after it. After a refusal they are those of the events
    /// that are complete before the refused byte.
    pub fn known(&self) -> &Faults
        ensures { (taken : List ℕ) → Knows self.now taken → AreFaultsOf self.now.further taken result.now }
    {
        &self.judging.watching.faults
    }

    /// How much the judge keeps of the log: the sum of the lengths of all its collections but the
    /// faults and the bytes of unfinished packets. It is within four times what is open in the log:
    /// Packet Identifiers, filters, Topic Aliases, and the events of an undecided connection.
    pub fn weight(&self) -> usize
        ensures exact { result ≡ in_word (watchers_weigh self.now.judging.watching) }
        ensures bounded { (log : List ℕ) → Follows self.now log → result ≤ 4 * burden self.now.judging.watching.tested (seen_in log) }
    {
        self.judging.watching.weight()
    }

    /// Takes in the next piece of the log. It doesn't matter how the log is cut into pieces.
    ///
    /// # Errors
    ///
    /// The refusal whose condition applies at the earliest byte, and at one byte the one with the
    /// lowest number; or `Memory`, at the byte that was being taken in, if no condition applies at
    /// it, nor at one before it. From then on each call fails with the same refusal.
    pub fn feed(&mut self, piece: &[u8]) -> Result<(), Refusal>
        ensures answers { (log : List ℕ) → Follows self.old log → JudgesPiece log piece.now self.new result }
        ensures counts { (log : List ℕ) → Follows self.old log → OnOk result (is_counting self.new ≡ is_counting self.old) }
        ensures limit { self.new.limit ≡ self.old.limit }
        ensures further { self.new.further ≡ self.old.further }
        ensures refuses { IfErr result (λ refusal. self.new.tracer.refusal ≡ Some refusal) }
        ensures for_ever { IfSome self.old.tracer.refusal (λ refusal. (result ≡ Err refusal) × (self.new ≡ self.old)) }
    {
        consume(self.further, &mut self.tracer, &mut self.judging, piece)
    }

    /// Ends the log, and returns how many events it has. The faults stay known: they are the
    /// verdict's. It needs no memory.
    ///
    /// # Errors
    ///
    /// As `finish`. The faults are then those of the events that are complete.
    pub fn end(&mut self) -> Result<u32, Refusal>
        ensures verdict { (log : List ℕ) → Follows self.old log → Ends log result }
        ensures known { (log : List ℕ) → Follows self.old log → Knows self.new log }
        ensures same { OnOk result (self.new ≡ self.old) }
        ensures limit { self.new.limit ≡ self.old.limit }
        ensures further { self.new.further ≡ self.old.further }
        ensures refuses { IfErr result (λ refusal. self.new.tracer.refusal ≡ Some refusal) }
        ensures for_ever { IfSome self.old.tracer.refusal (λ refusal. (result ≡ Err refusal) × (self.new ≡ self.old)) }
    {
        match self.tracer.finish() {
            Ok(()) => Ok(self.judging.watching.events),
            Err(refusal) => Err(refusal),
        }
    }

    /// Ends the log, and returns the verdict on it. It needs no memory.
    ///
    /// # Errors
    ///
    /// The refusal that an earlier call returned; `Cut`, at the log's length, if the log ends
    /// inside its header or a record.
    pub fn finish(self) -> Result<Verdict, Refusal>
        ensures verdict { (log : List ℕ) → Follows self log → Finishes self.further (λ v. v.events) (λ v. v.faults) log result }
        ensures for_ever { IfSome self.tracer.refusal (λ refusal. result ≡ Err refusal) }
    {
        let (verdict, _) = self.finish_with_role()?;
        Ok(verdict)
    }

    /// Ends the log, and returns the verdict on it and the role of the end that was judged, which
    /// `write_text` and its like ask for.
    ///
    /// # Errors
    ///
    /// As `finish`.
    pub(crate) fn finish_with_role(self) -> Result<(Verdict, Role), Refusal>
        ensures verdict { (log : List ℕ) → Follows self log → Finishes self.further (λ answer. answer.0.events) (λ answer. answer.0.faults) log result }
        ensures role { (log : List ℕ) → Follows self log → IfOk result (λ answer. answer.1 ≡ (tested_by self.further log).role) }
        ensures for_ever { IfSome self.tracer.refusal (λ refusal. result ≡ Err refusal) }
    {
        let mut judge = self;
        judge.take_verdict()
    }

    /// The same, how often each chosen statement that is listed was put to the test, and what wasn't
    /// judged.
    ///
    /// # Errors
    ///
    /// As `finish`.
    pub(crate) fn finish_covered(
        self,
        alloc: Global,
        choice: Choice,
    ) -> Result<(CoveredVerdict, Role), Refusal>
        ensures verdict { (log : List ℕ) → Follows self log → Finishes self.further (λ answer. answer.0.verdict.events) (λ answer. answer.0.verdict.faults) log result }
        ensures role { (log : List ℕ) → Follows self log → IfOk result (λ answer. answer.1 ≡ (tested_by self.further log).role) }
        ensures rows { (log : List ℕ) → is_counting self ≡ true → self.further ≡ wants_further (in_choice choice) → Follows self log → IfOk result (λ answer. IfSome answer.0.rows (λ rows. rows.items ≡ coverage_of (in_choice choice) log)) }
        ensures gaps { (log : List ℕ) → is_counting self ≡ true → Follows self log → IfOk result (λ answer. IfSome answer.0.gaps (λ gaps. gaps.items ≡ unjudged_of self.further log)) }
        ensures for_ever { IfSome self.tracer.refusal (λ refusal. result ≡ Err refusal) }
    {
        let mut judge = self;
        let rows = judge.coverage(alloc, choice);
        let gaps = judge.gaps(alloc);
        let (verdict, role) = judge.take_verdict()?;
        let covered = CoveredVerdict {
            verdict,
            rows,
            gaps,
        };
        Ok((covered, role))
    }

    // How often each chosen statement that is listed was put to the test in the log so far, where
    // places are counted. Nothing if there is no memory for it.
    fn coverage(&self, alloc: Global, choice: Choice) -> Option<Vec<Covered>>
        ensures { (log : List ℕ) → is_counting self.now ≡ true → self.now.further ≡ wants_further (in_choice choice) → Follows self.now log → 8 ≤ length log → IfSome result (λ rows. rows.items ≡ coverage_of (in_choice choice) log) }
    {
        match coverage(alloc, &self.judging.watching, choice) {
            Ok(rows) => Some(rows),
            Err(Memory) => None,
        }
    }

    // What isn't judged of the log so far, where places are counted. Nothing if there is no memory
    // for it.
    fn gaps(&self, alloc: Global) -> Option<Vec<Gap>>
        ensures { (log : List ℕ) → is_counting self.now ≡ true → Follows self.now log → 8 ≤ length log → IfSome result (λ gaps. gaps.items ≡ unjudged_of self.now.further log) }
    {
        let left = self.tracer.unfinished();
        match self.judging.watching.gaps(alloc, &left) {
            Ok(gaps) => Some(gaps),
            Err(Memory) => None,
        }
    }

    // Ends the log, and takes the faults out. A function that owns a judge has to drop it at each
    // of its exits, which is much: so this one borrows it.
    //
    // Errors: As `finish`.
    fn take_verdict(&mut self) -> Result<(Verdict, Role), Refusal>
        ensures verdict { (log : List ℕ) → Follows self.old log → Finishes self.old.further (λ answer. answer.0.events) (λ answer. answer.0.faults) log result }
        ensures role { (log : List ℕ) → Follows self.old log → IfOk result (λ answer. answer.1 ≡ (tested_by self.old.further log).role) }
        ensures for_ever { IfSome self.old.tracer.refusal (λ refusal. result ≡ Err refusal) }
    {
        self.tracer.finish()?;
        let Some(header) = self.tracer.header() else {
            return Err(Refusal::Cut(self.tracer.byte_count()));
        };
        let role = Tested::of(header, self.further).role;
        let watching = &mut self.judging.watching;
        let verdict = Verdict {
            events: watching.events,
            faults: watching.take_faults(),
        };
        Ok((verdict, role))
    }
}

// Takes in a piece of a log: first what belongs to its header, which names the end that is judged,
// by these further statements too, and then the rest, in which events are complete.
fn consume(
    further: Further,
    tracer: &mut Tracer,
    judging: &mut Judging<Brand>,
    piece: &[u8],
) -> Result<(), Refusal>
    ensures answers { (limit : ℕ) (log : List ℕ) → FollowsBy limit further tracer.old judging.old.watching log → JudgesPieceBy limit further tracer.new judging.new.watching log piece.now result }
    ensures counts { (limit : ℕ) (log : List ℕ) → FollowsBy limit further tracer.old judging.old.watching log → OnOk result (counts judging.new.watching.watchers ≡ counts judging.old.watching.watchers) }
    ensures refuses { IfErr result (λ refusal. tracer.new.refusal ≡ Some refusal) }
    ensures for_ever { IfSome tracer.old.refusal (λ refusal. (result ≡ Err refusal) × (tracer.new ≡ tracer.old) × (judging.new ≡ judging.old)) }
{
    match tracer.begin(piece) {
        Ok(rest) => {
            judging.watching.begin(tracer.header(), further);
            take_events::<Brand>(tracer, judging, rest)
        }
        Err(refusal) => Err(refusal),
    }
}

// Takes in a piece of a log of the end that is picked.
fn take_events<K: End>(
    tracer: &mut Tracer,
    judging: &mut Judging<K>,
    piece: &[u8],
) -> Result<(), Refusal>
    requires tested { judging.old.watching.tested ≡ K.tested }
    requires counting { counts judging.old.watching.watchers ≡ K.counting }
    ensures answers { (log : List ℕ) → IsTracedTo tracer.old log → IsWatching judging.old.watching (seen_in log) → IsTallying judging.old.watching (events log) → TakesEvents tracer.old.reading.limit judging.old.watching.tested (counts judging.old.watching.watchers) log piece.now tracer.new judging.new.watching result }
    ensures refuses { IfErr result (λ refusal. tracer.new.refusal ≡ Some refusal) }
    ensures for_ever { IfSome tracer.old.refusal (λ refusal. (result ≡ Err refusal) × (tracer.new ≡ tracer.old) × (judging.new ≡ judging.old)) }
{
    tracer.feed(piece, judging)
}
