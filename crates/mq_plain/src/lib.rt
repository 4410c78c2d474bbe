//! Plain evaluators of the statements on sessions, and of further statements: they look back over
//! the whole list of events, as the definitions do.
#![tactic(auto)]

mod adding;
mod answers;
mod binding;
mod connection;
mod deliveries;
mod earliest;
mod evaluator;
mod exchanges;
mod further;
mod handshake;
mod identifiers;
mod judging;
mod lookback;
mod owing;
mod pass;
mod passing;
mod plain;
mod quota;
mod releases;
mod releasing;
mod resends;
mod resting;
mod session;
mod table;
mod turn;

pub use further::plain_further;
pub use plain::{plain_lb, plain_se, plain_sessions};
