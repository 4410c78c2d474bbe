//! The judge on logs, each with its report, worked out by hand from the statements, and compared
//! with evaluators that look back.

mod further;
mod hostile;
mod matching;
mod memory;
mod plain;
mod statements;
mod suite;
mod times;
