//! Judges the log of one end of an MQTT 5.0 session: which chosen statements of the protocol that
//! end broke, and where.
#![tactic(auto)]

mod coverage;
mod judge;
mod laws;
mod progress;
mod runner;
mod shown;
mod tally;
mod telling;
mod unjudged;
mod watching;

pub use judge::{Judge, Options};
pub use laws::{converted_logs_have_the_same_chosen_report, known_faults_stay};
pub use mq_choice::{Choice, Unchosen};
pub use mq_log::Refusal;
pub use mq_report::{
    Begun, Covered, Evidence, Form, Gap, Numbers, Outcome, RunFault, Verdict,
    converted_logs_have_the_same_report, write_json, write_refused, write_summary, write_text,
};
pub use mq_rules::{Fault, FaultKey, Faults, Further, Memory, Role, Rule, Tested};
pub use mq_trace::{ConvertFault, convert};
pub use progress::Progress;
pub use runner::{judge_reader, run, run_bounded, run_covered, run_watched};
