//! What the tests of the judge share: logs made of parts, a reader that gives a log in pieces, and
//! a writer that fails. It is for tests alone.
#![tactic(auto)]

use mq_judge::{Choice, Form, Judge, Options, Outcome, RunFault, run, write_refused};
use std::alloc::{AllocError, Global};
use std::io;
use std::io::{ErrorKind, Read, Write};
use std::test::Fail;

/// The header of a log of a client, in which releases are recorded.
pub const HEADER: &[u8] = b"MQTR\x01\x00\x01\x00";

/// A record of a log.
#[derive(Clone, Copy)]
pub enum Part {
    Open,
    Sent(&'static [u8]),
    Recv(&'static [u8]),
    Close,
    Rest,
    Release(u8),
}

use Part::{Close, Open, Recv, Release, Rest, Sent};

/// The header's byte for the role of the tested end.
pub const CLIENT: u8 = 0;

pub const SERVER: u8 = 1;

pub const CONNECT: &[u8] = b"\x10\x0d\x00\x04MQTT\x05\x02\x00\x3c\x00\x00\x00";

pub const CONNECT_OF_C: &[u8] = b"\x10\x0e\x00\x04MQTT\x05\x02\x00\x3c\x00\x00\x01c";

/// A client whose session is kept for a minute: it begins one, and resumes it.
pub const CONNECT_ANEW: &[u8] =
    b"\x10\x13\x00\x04MQTT\x05\x02\x00\x3c\x05\x11\x00\x00\x00\x3c\x00\x01c";

pub const CONNECT_AGAIN: &[u8] =
    b"\x10\x13\x00\x04MQTT\x05\x00\x00\x3c\x05\x11\x00\x00\x00\x3c\x00\x01c";

pub const CONNACK: &[u8] = b"\x20\x03\x00\x00\x00";

/// A CONNACK with Session Present 1.
pub const CONNACK_RESUMED: &[u8] = b"\x20\x03\x01\x00\x00";

/// A CONNACK of code 0x87: the client isn't authorized.
pub const REFUSING_CONNACK: &[u8] = b"\x20\x03\x00\x87\x00";

/// PUBLISH of QoS 1 and of QoS 2 under identifier 1, and of QoS 1 under identifier 0.
pub const PUBLISH_ONCE: &[u8] = b"\x32\x07\x00\x01a\x00\x01\x00x";

pub const PUBLISH_TWICE: &[u8] = b"\x34\x07\x00\x01a\x00\x01\x00x";

pub const PUBLISH_UNIDENTIFIED: &[u8] = b"\x32\x07\x00\x01a\x00\x00\x00x";

pub const PUBACK: &[u8] = b"\x40\x02\x00\x01";

pub const PUBREC: &[u8] = b"\x50\x02\x00\x01";

/// PUBREC of code 0x10, no matching subscribers, and of code 0x80, unspecified error.
pub const PUBREC_WITHOUT_READERS: &[u8] = b"\x50\x03\x00\x01\x10";

pub const REFUSING_PUBREC: &[u8] = b"\x50\x03\x00\x01\x80";

pub const PUBREL: &[u8] = b"\x62\x02\x00\x01";

pub const PUBCOMP: &[u8] = b"\x70\x02\x00\x01";

pub const SUBSCRIBE: &[u8] = b"\x82\x07\x00\x01\x00\x00\x01a\x00";

pub const SUBACK: &[u8] = b"\x90\x04\x00\x01\x00\x00";

pub const UNSUBSCRIBE: &[u8] = b"\xa2\x06\x00\x01\x00\x00\x01a";

pub const UNSUBACK: &[u8] = b"\xb0\x04\x00\x01\x00\x00";

pub const PINGREQ: &[u8] = b"\xc0\x00";

pub const PINGRESP: &[u8] = b"\xd0\x00";

pub const DISCONNECT: &[u8] = b"\xe0\x00";

pub const AUTH: &[u8] = b"\xf0\x00";

/// Appends a record to the log, with these bytes of a moment: eight in version 2, none in version
/// 1.
pub fn add_timed_record(
    log: &mut Vec<u8>,
    kind: u8,
    moment: &[u8],
    body: &[u8],
) -> Result<(), AllocError> {
    let [_, _, _, _, a, b, c, d] = body.len().to_be_bytes();
    log.extend_from_slice(&[kind, a, b, c, d])?;
    log.extend_from_slice(moment)?;
    log.extend_from_slice(body)
}

/// Appends a record to a log of version 1.
pub fn add_record(log: &mut Vec<u8>, kind: u8, body: &[u8]) -> Result<(), AllocError> {
    add_timed_record(log, kind, &[], body)
}

/// The log of an end in this role, in which releases are recorded.
pub fn log_of(alloc: Global, role: u8, parts: &[Part]) -> Result<Vec<u8>, AllocError> {
    let mut log = Vec::new(alloc);
    log.extend_from_slice(b"MQTR\x01")?;
    log.extend_from_slice(&[role, 1, 0])?;
    for part in parts {
        match part {
            Open => add_record(&mut log, 1, &[])?,
            Sent(packet) => add_record(&mut log, 2, packet)?,
            Recv(packet) => add_record(&mut log, 3, packet)?,
            Close => add_record(&mut log, 4, &[])?,
            Rest => add_record(&mut log, 5, &[])?,
            Release(identifier) => add_record(&mut log, 6, &[0, *identifier])?,
        }
    }
    Ok(log)
}

/// A reader that gives at most `size` bytes a read, and at the end fails or ends. If `interrupts`
/// is true, every other read is interrupted, the first one too.
#[derive(Drop)]
pub struct Pieces<'a> {
    left: &'a [u8],
    size: usize,
    interrupts: bool,
    fails: bool,
    interrupted: bool,
}

impl Pieces<'_> {
    /// Gives these bytes without an interruption, and ends.
    pub fn of(left: &[u8], size: usize) -> Pieces<'_> {
        Pieces {
            left,
            size,
            interrupts: false,
            fails: false,
            interrupted: false,
        }
    }

    /// Gives these bytes with interruptions, and fails or ends.
    pub fn interrupted(left: &[u8], size: usize, fails: bool) -> Pieces<'_> {
        Pieces {
            left,
            size,
            interrupts: true,
            fails,
            interrupted: false,
        }
    }
}

impl Read for Pieces<'_> {
    fn read(&mut self, buffer: &mut [u8]) -> io::Result<usize> {
        self.interrupted = self.interrupts && !self.interrupted;
        if self.interrupted {
            return Err(io::Error::from(ErrorKind::Interrupted));
        }
        if self.left.is_empty() && self.fails {
            return Err(io::Error::from(ErrorKind::Other));
        }
        let count = self.left.len().min(self.size).min(buffer.len());
        buffer[..count].copy_from_slice(&self.left[..count]);
        self.left = &self.left[count..];
        Ok(count)
    }
}

/// A writer that takes this many bytes, at most three at a time, and then fails once: with an error
/// of this kind, or by taking none. After that it takes all.
#[derive(Drop)]
pub struct Failing {
    pub taken: Vec<u8>,
    room: Option<usize>,
    error: Option<ErrorKind>,
}

impl Failing {
    /// A writer that fails once it has taken `room` bytes, with an error of this kind; with `None`,
    /// by taking no byte.
    pub fn after(alloc: Global, room: usize, error: Option<ErrorKind>) -> Failing {
        Failing {
            taken: Vec::new(alloc),
            room: Some(room),
            error,
        }
    }
}

impl Write for Failing {
    fn write(&mut self, bytes: &[u8]) -> io::Result<usize> {
        let count = bytes.len().min(self.room.unwrap_or(3)).min(3);
        if count == 0 {
            self.room = None;
            return match self.error {
                Some(kind) => Err(io::Error::from(kind)),
                None => Ok(0),
            };
        }
        self.taken.extend_from_slice(&bytes[..count])?;
        if let Some(room) = self.room {
            self.room = Some(room - count);
        }
        Ok(count)
    }

    fn flush(&mut self) -> io::Result<()> {
        Ok(())
    }
}

/// What a judge weighs that has taken in this log, if it isn't refused.
pub fn weight_of(alloc: Global, log: &[u8]) -> Option<usize> {
    let mut judge = Judge::new(alloc, Options::default());
    match judge.feed(log) {
        Ok(()) => Some(judge.weight()),
        Err(_) => None,
    }
}

/// The outcome of judging a log in which nothing is wrong.
pub const PASSED: Option<Outcome> = Some(Outcome::Pass);

/// The outcome of judging a log that has faults.
pub const FAULTY: Option<Outcome> = Some(Outcome::Fail);

/// In place of an outcome, for a log that is refused.
pub const REFUSED: Option<Outcome> = None;

/// Whether judging what the reader gives has this outcome, and writes this report in this form; for
/// a refused log that is its line.
///
/// # Errors
///
/// `Fail` if that line can't be written.
pub fn reports<R: Read>(
    alloc: Global,
    reader: &mut R,
    form: Form,
    outcome: Option<Outcome>,
    report: &str,
) -> Result<bool, Fail> {
    let mut written = Vec::new(alloc);
    let answer = match run(alloc, reader, &mut written, form, Choice::Usual) {
        Ok(outcome) => Some(outcome),
        Err(RunFault::Refused(refusal)) => {
            write_refused(alloc, &refusal, form, &mut written).map_err(
                |_| "the line was not written",
            )?;
            None
        }
        Err(RunFault::Write | RunFault::Memory) => return Ok(false),
    };
    Ok(answer == outcome && written.as_slice() == report.as_bytes())
}

/// Whether judging the log has this outcome, and writes this report, if it is read at once and if
/// it is read byte by byte. For a log that is refused, the report is its line.
///
/// # Errors
///
/// `Fail` if there is no memory, or that line can't be written.
pub fn is_reported(
    alloc: Global,
    log: &[u8],
    outcome: Option<Outcome>,
    report: &str,
) -> Result<bool, Fail> {
    let whole = reports(alloc, &mut &log[..], Form::Text, outcome, report)?;
    let cut = reports(alloc, &mut Pieces::of(log, 1), Form::Text, outcome, report)?;
    Ok(whole && cut)
}
