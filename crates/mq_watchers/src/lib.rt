//! Watchers of all statements, or of those on sessions alone, over the events of a log: the watchers
//! of `mq_connections`, `mq_inflight`, `mq_exchanges` and `mq_subscriptions`, put together.
#![tactic(auto)]

mod judging;
mod sessions;
mod watchers;

pub use judging::{watch_all, watch_sessions};
pub use sessions::{SessionPlaces, Sessions};
pub use watchers::{CountingWatchers, PlainWatchers, Watchers};
