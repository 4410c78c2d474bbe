//! The recorded log of an MQTT 5.0 session, in version 1 or 2: its header, its records, and the
//! events that they give.
#![tactic(auto)]

mod connections;
mod converting;
mod converting_laws;
mod deframer;
mod feeding;
mod frame;
mod framing_laws;
mod head;
mod joined_laws;
mod reading;
mod sink;
mod splitting_laws;
mod stage;
mod tracer;
mod turns;
mod unfinished;
mod writer;

pub use converting::{ConvertFault, convert};
pub use feeding::{Feed, Halt, feed_all};
pub use mq_log::{Direction, Event, Header, Item, Place3, Refusal, UnfinishedPackets};
pub use sink::Sink;
pub use tracer::Tracer;
pub use writer::{TraceWriter, WriteFault, write_bytes};
