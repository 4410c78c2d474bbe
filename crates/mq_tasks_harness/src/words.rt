//! What the tests share: the bytes of logs, a reader and a writer that fail, and what the words of
//! a task do.
use mq_command::{EarlyExit, Task, Work, parse};
use mq_host::{ErrorStream, FAILED, Obstacle, Outlet};
use mq_tasks::{attempt, stop};
use std::alloc::{AllocError, Global};
use std::io;
use std::io::{Cursor, ErrorKind, Read, Write};

/// A client's connection that the server answered.
pub const CONNECTED: &[u8] = b"MQTR\x01\x00\x01\x00\
    \x01\x00\x00\x00\x00\
    \x02\x00\x00\x00\x0f\x10\x0d\x00\x04MQTT\x05\x02\x00\x3c\x00\x00\x00\
    \x03\x00\x00\x00\x05\x20\x03\x00\x00\x00";

pub const CONNECTED_LINES: &str = "1 record 1 OPEN\n\
    2 record 2 SENT CONNECT size 15\n\
    3 record 3 RECV CONNACK size 5\n";

/// Two connections at once.
pub const NESTED: &[u8] = b"MQTR\x01\x00\x01\x00\x01\x00\x00\x00\x00\x01\x00\x00\x00\x00";

/// A session of seven events: a message is sent and acknowledged.
pub const WHOLE_LOG: &[u8] = b"MQTR\x01\x00\x01\x00\
    \x01\x00\x00\x00\x00\
    \x02\x00\x00\x00\x0f\x10\x0d\x00\x04MQTT\x05\x02\x00\x3c\x00\x00\x00\
    \x03\x00\x00\x00\x05\x20\x03\x00\x00\x00\
    \x02\x00\x00\x00\x09\x32\x07\x00\x01a\x00\x01\x00x\
    \x03\x00\x00\x00\x04\x40\x02\x00\x01\
    \x05\x00\x00\x00\x00\
    \x04\x00\x00\x00\x00";

/// Appends a record to the log.
pub fn add_record(log: &mut Vec<u8>, kind: u8, body: &[u8]) -> Result<(), AllocError> {
    let [_, _, _, _, a, b, c, d] = body.len().to_be_bytes();
    log.extend_from_slice(&[kind, a, b, c, d])?;
    log.extend_from_slice(body)
}

/// A reader that gives one byte a call, and fails after `fails_after` bytes, if that is some, with
/// an error of this kind.
#[derive(Drop)]
pub struct Trickle<'a> {
    bytes: &'a [u8],
    fails_after: Option<usize>,
    kind: ErrorKind,
}

impl Trickle<'_> {
    /// A reader that gives these bytes, and fails before the byte of this index, if that is some.
    pub fn of(bytes: &[u8], fails_after: Option<usize>) -> Trickle<'_> {
        Trickle::failing(bytes, fails_after, ErrorKind::Other)
    }

    /// A reader that gives these bytes, and fails with an error of this kind before the byte of
    /// this index, if that is some.
    pub fn failing(bytes: &[u8], fails_after: Option<usize>, kind: ErrorKind) -> Trickle<'_> {
        Trickle {
            bytes,
            fails_after,
            kind,
        }
    }
}

impl Read for Trickle<'_> {
    fn read(&mut self, buf: &mut [u8]) -> io::Result<usize> {
        if self.fails_after == Some(0) {
            return Err(self.kind.into());
        }
        self.fails_after = self.fails_after.map(|left| left.saturating_sub(1));
        if self.bytes.is_empty() || buf.is_empty() {
            return Ok(0);
        }
        buf[0] = self.bytes[0];
        self.bytes = &self.bytes[1..];
        Ok(1)
    }
}

/// A writer that takes `room` bytes and then fails, as does its flush if `stays` says so. Its
/// writes fail as on a full disk, its flush as if nobody read it any more.
#[derive(Drop)]
pub struct Narrow {
    pub room: usize,
    pub stays: bool,
}

impl Write for Narrow {
    fn write(&mut self, buf: &[u8]) -> io::Result<usize> {
        let taken = buf.len().min(self.room);
        if taken == 0 {
            return Err(ErrorKind::StorageFull.into());
        }
        self.room -= taken;
        Ok(taken)
    }

    fn flush(&mut self) -> io::Result<()> {
        if self.stays {
            return Err(ErrorKind::BrokenPipe.into());
        }
        Ok(())
    }
}

/// What the words of a task did.
#[derive(Drop)]
pub struct Printed {
    pub status: u8,
    pub output: Vec<u8>,
    pub error: Vec<u8>,
}

impl Printed {
    /// Whether it ended with this status and output, and without a message.
    pub fn says(&self, status: u8, output: &str) -> bool {
        self.status == status
            && self.output.as_slice() == output.as_bytes()
            && self.error.is_empty()
    }

    /// Whether it ended with this status and message, and without output.
    pub fn complains(&self, status: u8, message: &str) -> bool {
        self.status == status
            && self.output.is_empty()
            && self.error.as_slice() == message.as_bytes()
    }
}

// The task that these words ask for, on one reading of a log or on none.
fn task_of(alloc: Global, words: &[&str]) -> Result<Task, EarlyExit> {
    match parse(alloc, words)? {
        Work::Once(task) => Ok(task),
        Work::Again(_) | Work::Why(_) | Work::Convert(_) => Err(EarlyExit::Usage(String::new(
            alloc,
        ))),
    }
}

// Does the task, says on `error` what keeps it from being done, and returns the status.
fn perform<R: Read, W: Write, E: ErrorStream>(
    alloc: Global,
    task: &Task,
    input: &mut R,
    output: &mut W,
    error: &mut E,
) -> u8 {
    match attempt(alloc, task, input, output, &mut ()) {
        Ok(status) => status,
        Err(Obstacle::Failed(failure)) => failure.report(error),
        Err(Obstacle::Misused(misuse)) => misuse.report(alloc, error),
    }
}

/// What these words do with this input.
pub fn printed_by<R: Read>(
    alloc: Global,
    words: &[&str],
    input: &mut R,
) -> Result<Printed, EarlyExit> {
    let task = task_of(alloc, words)?;
    let mut output = Vec::new(alloc);
    let mut error = Vec::new(alloc);
    let status = perform(alloc, &task, input, &mut output, &mut error);
    Ok(Printed {
        status,
        output,
        error,
    })
}

/// Whether what these words ask for fails if the output has this little room, and reports that a
/// write failed.
pub fn is_failed_write(
    alloc: Global,
    words: &[&str],
    log: &[u8],
    mut output: Narrow,
) -> Result<bool, EarlyExit> {
    let task = task_of(alloc, words)?;
    let mut error = Vec::new(alloc);
    let status = perform(alloc, &task, &mut &log[..], &mut output, &mut error);
    Ok(status == FAILED && error.as_slice() == &b"mqjudge: write failed\n"[..])
}

/// The status of what these words do with this log, whether or not there is memory for it.
pub fn status_by<W: Write, E: Write>(
    alloc: Global,
    words: &[&str],
    log: &[u8],
    output: &mut W,
    error: &mut E,
) -> u8 {
    match task_of(alloc, words) {
        Ok(task) => perform(alloc, &task, &mut &log[..], output, error),
        Err(why) => stop(&why, &mut Outlet::new(output), error),
    }
}

/// Whether these bytes were written, and no more.
pub fn is_written<const N: usize>(cursor: &Cursor<[u8; N]>, bytes: &[u8]) -> bool {
    cursor.position() == bytes.len() as u64 && cursor.get_ref().starts_with(bytes)
}
