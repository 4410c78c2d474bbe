//! Logs, and what a tracer emits for them: lines and refusals that were worked out by hand from the
//! log's format.

mod early;
mod emission;
mod examples;
mod headers;
mod keeping;
mod kinds;
pub mod logs;
mod moments;
mod naming;
mod refusals;
mod sessions;
mod writing;
