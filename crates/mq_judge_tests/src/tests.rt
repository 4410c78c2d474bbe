//! The judge on logs, each with its report or its lines, worked out by hand from the format and the
//! statements.

mod annotated;
mod examples;
mod limits;
mod logs;
mod long_logs;
mod moments;
mod notes;
mod reports;
mod runs;
