//! Tests alone, of what is done for the words of a command line. They stand in a crate of their
//! own, so that `mq_tasks` isn't proved once more for them.
#![tactic(auto)]

#[cfg(test)]
mod tests;
