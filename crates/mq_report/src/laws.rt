//! Laws of what is reported, each proved as the contract of a function that does nothing.
ghost use Rattle.std.specs.Prelude.{◌≡◌, ℕ, List, None, false, slice_index};
ghost use Rattle.mq_trace.specs.Converting.{converted};
ghost use Rattle.mq_log.specs.Refusals.{refused, is_cut_short};
ghost use Rattle.mq_rules.specs.declared.role.Role.{Role};
ghost use Rattle.mq_rules.specs.declared.role.Further.{Further};
ghost use Rattle.mq_rules.specs.declared.fault.Fault.{Fault};
ghost use Rattle.mq_rules.specs.declared.faults.FaultKey.{FaultKey};
ghost use Rattle.mq_rules.specs.declared.evidence.Evidence.{Evidence};
ghost use Rattle.mq_report.specs.declared.report.Form.{Form};
ghost use Rattle.mq_report.specs.Report.{report, text_report};
ghost use Rattle.mq_report.specs.Reasons.{reasoned_text_report, without_reasons};

/// A log of version 1 that isn't refused, and isn't cut short, has the same report once it is
/// converted into version 2.
pub fn converted_logs_have_the_same_report()
    ensures { (limit : ℕ) (further : Further) (log : List ℕ) (form : Form) → slice_index log 4 ≡ 1 → refused limit log ≡ None → is_cut_short log ≡ false → report further form (converted log) ≡ report further form log }
{}

/// The text that says what each fault conflicts with is the report with further lines: without them
/// it is the report.
pub fn reasons_have_lines_of_their_own()
    ensures { (role : Role) (faults : List (FaultKey × Fault)) (events : ℕ) (reasons : List Evidence) → without_reasons (reasoned_text_report role faults events reasons) ≡ text_report role faults events }
{}
