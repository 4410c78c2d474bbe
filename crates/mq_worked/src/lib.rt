//! Tests alone: logs, each with the report on it that was worked out by hand from the format and
//! the statements, and the judge on them beside the plain evaluators. They stand in a crate of
//! their own, so that the program is made of nothing that only they need.
#![tactic(auto)]

#[cfg(test)]
mod tests;
