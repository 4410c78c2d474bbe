//! A second reading of a log that has faults: it finds what each of them conflicts with.
#![tactic(auto)]

mod comparing;
mod explaining;
mod finding;
mod following;
mod introducing;
mod rejudging;
mod reviewing;
mod second_reading;
mod until;

pub use comparing::{copy_of, same_end, same_faults};
pub use explaining::{Answers, Reasons, Unexplained, explain_reader};
pub use finding::{connection_evidence, evidence_of, session_evidence};
pub use following::{Follower, Following, Watched};
pub use introducing::Introducing;
pub use rejudging::Rejudging;
pub use reviewing::{Reviewing, Wanted};
pub use second_reading::follow_reader;
pub use until::{Explainer, Until};
