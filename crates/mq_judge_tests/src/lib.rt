//! Tests alone, of the judge, its runs, the reports and what is shown of a log. They stand in a
//! crate of their own, so that these aren't proved once more for them.
#![tactic(auto)]

#[cfg(test)]
mod tests;
