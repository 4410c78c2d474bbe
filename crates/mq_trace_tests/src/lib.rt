//! Tests alone, of `mq_log` and `mq_trace`. They stand in a crate of their own, so that these
//! aren't proved once more for them.
#![tactic(auto)]

#[cfg(test)]
mod tests;
