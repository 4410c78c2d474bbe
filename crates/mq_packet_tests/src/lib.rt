//! Tests alone, of `mq_packet` and the crates below it. They stand in a crate of their own, so that
//! the codec isn't proved once more for them.
#![tactic(auto)]

#[cfg(test)]
mod tests;
