//! What keeps the faults of a log from being explained, and reading the log again to explain them.
ghost use Rattle.std.specs.Prelude.{◌≡◌, IfErr, IfOk, IfSome};
ghost use Rattle.std.specs.FinMap as map;
ghost use Rattle.mq_choice.specs.Choices.{in_choice, wants_further};
ghost use Rattle.mq_tasks.specs.Choosing.{chosen_as};
ghost use Rattle.mq_tasks.specs.Lapses.{AreVerdictReasons, LacksReasons, changed_line, lapse_of};
ghost use Rattle.mq_host.specs.Streams.{IsTold, stream};

use mq_choice::Choice;
use mq_host::{ErrorStream, FAILED, Failure};
use mq_judge::{Refusal, Verdict};
use mq_rules::{Evidence, Tested};
use mq_trail::{Unexplained, explain_reader};
use std::alloc::Global;
use std::io::Read;

/// What keeps a log from being judged and its faults from being explained.
#[derive(Clone, Copy, Debug, PartialEq, Eq)]
pub enum Lapse {
    /// Something failed.
    Failed(Failure),
    /// The log isn't the one any more in which the faults were found.
    Changed,
}

/// What each fault of a verdict by the chosen statements conflicts with, by the log that a reader
/// gives: the log of that verdict, unless its file changed since.
///
/// # Errors
///
/// `Changed` if the log is refused or gives another verdict; and what failed: reading, or memory
/// ran out.
#[tactic(auto, using(crate::proofs::LapseLaws::refused_lacks, crate::proofs::LapseLaws::changed_lacks, crate::proofs::LapseLaws::memory_lacks))]
pub fn explain_again<S: Read>(
    alloc: Global,
    tested: Tested,
    choice: Choice,
    verdict: &Verdict,
    again: &mut S,
) -> Result<Vec<Evidence>, Lapse>
    requires { tested.further ≡ wants_further (in_choice choice) }
    ensures found { IfOk result (λ reasons. IfSome (S.remaining again.old)
        (λ log. AreVerdictReasons (chosen_as choice) tested verdict.now.events (map.entries verdict.now.faults) log reasons.items)) }
    ensures lacking { IfErr result (λ lapse. IfSome (S.remaining again.old)
        (λ log. LacksReasons (chosen_as choice) tested verdict.now.events (map.entries verdict.now.faults) lapse log (S.remaining again.new))) }
{
    match explain_reader(alloc, again, tested, choice, verdict) {
        Ok(reasons) => Ok(reasons),
        Err(Unexplained::Refused(refusal)) => Err(lapse_of(refusal)),
        Err(Unexplained::Changed) => Err(Lapse::Changed),
        Err(Unexplained::Memory) => Err(Lapse::Failed(Failure::Memory)),
    }
}

// Why the log isn't judged again that this refuses: reading failed, memory ran out, or it changed.
fn lapse_of(refusal: Refusal) -> Lapse
    ensures { result ≡ lapse_of refusal }
{
    match refusal {
        Refusal::Read(_) => Lapse::Failed(Failure::Read),
        Refusal::Memory(_) => Lapse::Failed(Failure::Memory),
        _ => Lapse::Changed,
    }
}

/// Writes to `error` that the log changed, and returns the status.
pub fn tell_of_change<E: ErrorStream>(error: &mut E) -> u8
    ensures status { result ≡ FAILED }
    ensures told { IsTold (stream E.contents E.has_failed error.old error.new) changed_line }
{
    // Nothing more can be done if `error` fails.
    let _ = error.write_message("mqjudge: the log changed between two readings\n");
    FAILED
}
