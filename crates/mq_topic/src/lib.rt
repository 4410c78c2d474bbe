//! Topic Names and Topic Filters (MQTT 5.0, 4.7).
#![tactic(auto)]

mod aliases;
mod filter;
mod matching;
mod name;
mod worked;

pub use aliases::{AliasTable, Memory};
pub use filter::{FilterFault, check_filter};
pub use matching::matches;
pub use name::check_name;
