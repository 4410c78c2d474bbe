//! What a watcher of statements on sessions is. Each event is taken in once, and what is kept doesn't
//! grow with the log.
//!
//! A session packet may come before the CONNACK that decides its connection: `Early` holds the
//! events of an undecided connection, and a `Fated` watcher takes them in with the fate that is
//! then known.
#![tactic(auto)]

mod counting;
mod early;
mod fated;
mod known;
mod selective;
mod sizes;
mod taken;

pub use counting::{Asks, Counting, more, pick};
pub use early::Early;
pub use fated::{Fated, fated_apart};
pub use known::{excuse, is_placed, judge_by, place};
pub use mq_rules::Fate;
pub use selective::{Discerning, Selecting, Selective};
pub use sizes::{map_size, set_size};
pub use taken::{RECEIVE_MAXIMUM, Taken, ended_after, is_acknowledged, opened_after};
