//! Topic Filters that stand, each with the greatest QoS of what may be sent for it, and what they
//! allow for a topic (MQTT 5.0, sections 3.8.4 and 4.7).
//!
//! A filter without a wildcard is looked up by the topic. So are those with wildcards, as long as
//! they have few patterns; else they are gone through.
#![tactic(auto)]

mod ceilings;
mod patterns;
mod stands;

pub use ceilings::{higher, is_within, raised_by};
pub use stands::StandingFilters;
