//! The faults of the chosen statements.
ghost use Rattle.std.specs.Prelude.{◌≡◌, ℕ, true, cond, None, List, IfOk, OnErr};
ghost use Rattle.mq_rules.specs.declared.note.Seen.{Seen};
ghost use Rattle.mq_rules.specs.declared.role.Tested.{Tested as TheTested};
ghost use Rattle.mq_rules.specs.declared.rule.Rule.{Rule as TheRule};
ghost use Rattle.mq_rules.specs.FaultKeys.{fault_at};
ghost use Rattle.mq_choice.specs.Choices.{AreAllFaults, AreChosenFaults, in_choice, is_listed, wants_further};

use crate::choice::Choice;
use mq_rules::{Faults, Memory};
use std::alloc::Global;

/// Of all faults of a log those of the chosen statements. Without a list they are all, if the
/// further statements were judged as the choice has it: then none is looked at.
///
/// # Errors
///
/// `Memory` if there is no memory for them, which are a copy if there is a list.
#[tactic(auto, using(crate::proofs::ChosenLaws::kept_chosen, crate::proofs::ChosenLaws::usual_chosen))]
pub fn drop_others(alloc: Global, faults: Faults, choice: Choice) -> Result<Faults, Memory>
    ensures kept { IfOk result (λ kept. (tested : TheTested) (past : List Seen) → tested.further ≡ wants_further (in_choice choice)
        → AreAllFaults tested past faults → AreChosenFaults (in_choice choice) tested past kept) }
    ensures listed { OnErr result (is_listed choice ≡ true) }
{
    if choice.is_listed() {
        return chosen_of(alloc, &faults, choice);
    }
    Ok(faults)
}

/// A copy of those of these faults that are of the chosen statements.
///
/// # Errors
///
/// `Memory` if there is no memory for it.
pub fn chosen_of(alloc: Global, faults: &Faults, choice: Choice) -> Result<Faults, Memory>
    ensures { IfOk result (λ kept. (k : ℕ) (rule : TheRule) → fault_at kept k rule ≡ cond (in_choice choice rule) (fault_at faults.now k rule) None) }
{
    let mut kept = Faults::new(alloc);
    for (key, fault) in faults.iter() {
        if choice.has(key.rule) {
            kept.add(*key, *fault)?;
        }
    }
    Ok(kept)
}
