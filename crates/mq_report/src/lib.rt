//! What is written of logs: a report on the verdict in each of its forms, or a line on a refusal.
#![tactic(auto)]

mod feeding;
mod laws;
mod lines;
mod report;
mod types;

pub use feeding::{DEFAULT_LIMIT, feed_log};
pub use laws::{converted_logs_have_the_same_report, reasons_have_lines_of_their_own};
pub use lines::Lines;
pub use mq_rules::{Evidence, Numbers};
pub use report::coverage::Covered;
pub use report::json::{write_covered_json, write_json, write_reasoned_json};
pub use report::line::write_bytes;
pub use report::reasons::later_reasons;
pub use report::summary::{write_covered_summary, write_summary};
pub use report::text::{write_covered_text, write_reasoned_text, write_text};
pub use report::unjudged::{Begun, Gap};
pub use report::{
    Form, Outcome, RunFault, Verdict, write_covered_report, write_reasoned_report, write_refused,
    write_report,
};
pub use types::type_of;
