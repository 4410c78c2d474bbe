//! What is shown of logs and packets: a line for each event, with or without the faults at them and
//! what these conflict with; and what some bytes are that should be one packet.
#![tactic(auto)]

mod display;
mod finding;
mod item;
mod laws;
mod long_packet;
mod packet_summary;
mod sentences;

pub use display::annotated::Extent;
pub use display::{show, show_faults, show_long};
pub use finding::write_packet;
pub use laws::{dates_are_exact, worked_broken_packets, worked_times};
pub use long_packet::write_long_packet;
