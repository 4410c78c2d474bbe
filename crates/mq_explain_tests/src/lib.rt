//! Tests alone, of the texts on the statements. They stand in a crate of their own, so that
//! `mq_explain` isn't proved once more for them.
#![tactic(auto)]

#[cfg(test)]
mod tests;
