//! Watchers of what is sent under Packet Identifiers: S01 to S06, and S07, the send quota.
#![tactic(auto)]

mod inflight;
mod quota;

pub use inflight::Inflight;
pub use quota::Quota;
