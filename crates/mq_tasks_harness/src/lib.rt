//! What the tests of tasks and of the program share: the bytes of logs, a reader and a writer that
//! fail, what the words of a task do, and a host that tests play. It is for tests alone.
#![tactic(auto)]

mod desk;
mod words;

pub use desk::{Desk, FAULTY, GOOD, Held, does};
pub use words::{
    CONNECTED, CONNECTED_LINES, NESTED, Narrow, Printed, Trickle, WHOLE_LOG, add_record,
    is_failed_write, is_written, printed_by, status_by,
};
