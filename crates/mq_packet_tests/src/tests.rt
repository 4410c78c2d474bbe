//! The codec by its bytes, as MQTT 5.0 spells them: packets, and the fields, topics and property
//! lists below them.

mod brief;
mod changed;
mod cuts;
mod encoding;
mod examples;
mod faults;
mod harness;
mod lists;
mod memory;
mod packets;
mod props;
mod reasons;
mod rows;
mod topic;
mod trying;
mod validity;
mod whole;
mod wire;
mod written;
