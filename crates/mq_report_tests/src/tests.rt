//! What no clause says of reports and of the details of packets: their text, written out.

mod because;
mod coverage;
mod details;
mod harness;
mod lines;
mod reasons;
