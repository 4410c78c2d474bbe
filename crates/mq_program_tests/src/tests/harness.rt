//! What the tests share that judge one log by several words.
use mq_tasks_harness::{Desk, GOOD, does};
use std::alloc::Global;
use std::process::Abort;

/// Words, the log, the status, and what is written.
pub type Judged = (&'static [&'static str], &'static [u8], u8, &'static str);

// Whether the program does this with these words and this log, and says nothing.
fn is_done(
    alloc: Global,
    words: &'static [&'static str],
    log: &'static [u8],
    status: u8,
    written: &str,
) -> bool {
    let mut desk = Desk::of(alloc, words, log, GOOD);
    does(&mut desk, status, written, "")
}

/// Asserts that it does for each row.
pub fn assert_rows(rt: &(impl Abort + AllocGlobal), rows: &[Judged]) {
    for (words, log, status, written) in rows {
        assert!(rt;
            is_done(rt.alloc(), *words, *log, *status, written),
            "{words:?}"
        );
    }
}
