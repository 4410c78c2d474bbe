//! Tests alone, of what is shown: of a packet, of the statements and of a log. They stand in a
//! crate beside the other tests of `mq_tasks`, so that both are proved at the same time.
#![tactic(auto)]

#[cfg(test)]
mod tests;
