//! The log's format, by definitions over all bytes of a log: its header, its records, the events
//! that they give, and why a log is refused. `mq_trace` reads and writes logs by them, and the
//! statements speak of these events.
#![tactic(auto)]

mod event;
mod header;
mod kind;
mod place;
mod refusal;

pub use event::{Event, Item, UnfinishedPackets, item_event};
pub use header::{
    HEADER_LENGTH, Header, LENGTH_END, MAGIC, MOMENT_END, VERSION_AT, has_moments, head_length,
    header_after, header_refusal, longest_body,
};
pub use kind::{Direction, RecordKind};
pub use place::{InRecord, Place3};
pub use refusal::Refusal;
