//! Laws of what a judge knows and of what a run reports, each proved as the contract of a function
//! that does nothing.
ghost use Rattle.std.specs.Prelude.{◌≡◌, ◌++◌, ℕ, Bool, false, List, None, Some, slice_index};
ghost use Rattle.mq_log.specs.Refusals.{refused, is_cut_short};
ghost use Rattle.mq_trace.specs.Converting.{converted};
ghost use Rattle.mq_report.specs.declared.report.Form.{Form};
ghost use Rattle.mq_judge.specs.Runner.{chosen_report};
ghost use Rattle.mq_rules.specs.declared.fault.Fault.{Fault};
ghost use Rattle.mq_rules.specs.declared.role.Further.{Further};
ghost use Rattle.mq_rules.specs.declared.rule.Rule.{Rule};
ghost use Rattle.mq_rules.specs.FaultKeys.{FaultMap, fault_at};
ghost use Rattle.mq_judge.specs.Judging.{AreFaultsOf};

/// A fault that is known of a log stays, with the event that decided it, its record and its offset,
/// whatever bytes follow.
pub fn known_faults_stay()
    ensures { (further : Further) (log more : List ℕ) (known later : FaultMap) → AreFaultsOf further log known → AreFaultsOf further (log ++ more) later → (k : ℕ) (rule : Rule) (fault : Fault) → fault_at known k rule ≡ Some fault → fault_at later k rule ≡ Some fault }
{}

/// A log of version 1 that isn't refused, and isn't cut short, has the same report once it is
/// converted into version 2, whichever statements are chosen.
pub fn converted_logs_have_the_same_chosen_report()
    ensures { (limit : ℕ) (chosen : Rule → Bool) (log : List ℕ) (form : Form) → slice_index log 4 ≡ 1 → refused limit log ≡ None → is_cut_short log ≡ false → chosen_report chosen form (converted log) ≡ chosen_report chosen form log }
{}
