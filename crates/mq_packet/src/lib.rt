//! MQTT 5.0 Control Packets: an exact codec of all fifteen (MQTT 5.0, sections 2 and 3).
//!
//! `fixed_header` says how long the packet at the front of a stream is, `cut` finds it, and
//! `decode` says which packet a body spells or which rule it breaks and where.
#![tactic(auto)]

mod brief;
mod codes;
mod cutting;
mod decoding;
mod facts;
mod fault;
mod filters;
mod first_bytes;
mod frame;
mod front_laws;
mod header;
mod kinds;
mod laws;
mod outcome_laws;
mod packet;
mod protocol;
mod read_fault;
mod reading;
mod reason_codes;
mod rule;
mod spelling_laws;
mod trying;
mod validity;
mod writing;

pub use brief::{
    decode_brief_acknowledgement, decode_brief_publish, decode_identified_publish, decode_ping,
    has_no_properties,
};
pub use cutting::cut;
pub use decoding::{decode, decode_publish};
pub use fault::{BodyFault, DecodeFault};
pub use filters::{Filter, Filters, FiltersIter};
pub use frame::Cut;
pub use front_laws::{each_front_is_one_of_three, worked_fronts};
pub use header::{FixedHeader, fixed_header};
pub use laws::{each_body_comes_to_one_thing, the_front_of_a_stream_stays};
pub use outcome_laws::{other_versions_are_named_first, packet_fault_or_other_version};
pub use packet::{
    Acknowledgement, Answer, Connack, Connect, Packet, PacketType, Publish, Qos, ReasonPacket,
    Request, Will,
};
pub use reason_codes::{Codes, CodesIter};
pub use rule::PacketRule;
pub use spelling_laws::{
    each_packet_has_one_spelling, what_is_read_is_written, what_is_written_is_read,
    worked_spellings,
};
pub use validity::is_valid;
pub use writing::{
    EncodeFault, encode, what_is_valid_is_spelled, what_is_written_is_cut,
    what_is_written_is_decoded,
};
