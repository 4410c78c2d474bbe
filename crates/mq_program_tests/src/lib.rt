//! Tests alone, of the program by its words on a host that tests play: what it writes to both
//! outputs, and its status, without and with failures. Beside `mq_tasks_tests` they are a crate of
//! their own, so that both are proved at the same time.
#![tactic(auto)]

#[cfg(test)]
mod tests;
