//! What is done for the words of a command line, and the status to exit with.
#![tactic(auto)]

mod choosing;
mod converting;
mod inquiring;
mod lapse;
mod meter;
mod program;
mod reviewing;
mod tasks;

pub use converting::perform_convert;
pub use inquiring::{Wanted, inquire_twice};
pub use lapse::Lapse;
pub use meter::Meter;
pub use program::run;
pub use reviewing::{Plan, show_reasoned};
pub use tasks::{attempt, stop};
