//! Choosing which statements a log is judged by.
#![tactic(auto)]

mod choice;
mod dropping;
mod list;

pub use choice::Choice;
pub use dropping::{chosen_of, drop_others};
pub use list::Unchosen;
