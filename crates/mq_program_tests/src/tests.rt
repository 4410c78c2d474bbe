//! The program by its words.

mod converting;
mod coverage;
mod harness;
mod matching;
mod programs;
mod times;
mod troubles;
mod unsubscribing;
