//! Tests alone, of reports and of the details of packets: their text, written out. They stand in a
//! crate of their own, so that `mq_report` isn't proved once more for them.
#![tactic(auto)]

#[cfg(test)]
mod tests;
