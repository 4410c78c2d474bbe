//! Tests alone, of `mq_rules`: short logs whose faults and places are computed from its
//! definitions, and what filters ask for; and its tables by Packet Identifiers. They stand in a
//! crate of their own, so that the crates above `mq_rules` don't wait for them.
#![tactic(auto)]

#[cfg(test)]
mod by_identifier;
#[cfg(test)]
mod counted_by_identifier;
mod worked;
mod worked_filters;
mod worked_matching;
mod worked_matching_places;
mod worked_places;
mod worked_times;
