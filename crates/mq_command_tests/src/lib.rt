//! Tests alone, of what the words of a command line ask for. They stand in a crate of their own, so
//! that `mq_command` isn't proved once more for them.
#![tactic(auto)]

#[cfg(test)]
mod tests;
