//! Logs that are written, byte for byte, and writers that fail.
use super::logs::{CONNACK, CONNECT, PUBACK, PUBLISH};
use mq_log::Header;
use mq_trace::{TraceWriter, WriteFault};
use std::alloc::Global;
use std::io;
use std::io::{ErrorKind, Write};
use std::test::Fail;

/// A client connects, publishes a message at QoS 1 and gets the PUBACK, rests, and the connection
/// ends.
const WORKED: &[u8] = b"MQTR\x01\x00\x01\x00\
    \x01\x00\x00\x00\x00\
    \x02\x00\x00\x00\x0F\x10\x0D\x00\x04MQTT\x05\x02\x00\x3C\x00\x00\x00\
    \x03\x00\x00\x00\x05\x20\x03\x00\x00\x00\
    \x02\x00\x00\x00\x09\x32\x07\x00\x01a\x00\x01\x00x\
    \x03\x00\x00\x00\x04\x40\x02\x00\x01\
    \x05\x00\x00\x00\x00\
    \x04\x00\x00\x00\x00";

/// How long the worked log is after each call.
const ENDS: [usize; 8] = [8, 13, 33, 43, 57, 66, 71, 76];

// Makes one of the worked log's calls, which are numbered from 0.
#[tactic(auto, using(mq_trace::proofs::Exports::longest_most))]
fn call<W: Write>(trace: &mut TraceWriter<W>, number: usize) -> Result<(), WriteFault> {
    match number {
        0 => trace.header(&Header {
            version: 1,
            server: false,
            releases: true,
        }),
        1 => trace.open(),
        2 => trace.sent(CONNECT),
        3 => trace.recv(CONNACK),
        4 => trace.sent(PUBLISH),
        5 => trace.recv(PUBACK),
        6 => trace.rest(),
        _ => trace.close(),
    }
}

// Makes all the worked log's calls, and returns the first that doesn't succeed just if there is room
// for it.
fn first_other_call<W: Write>(trace: &mut TraceWriter<W>, room: usize) -> Option<usize> {
    for (number, end) in ENDS.iter().enumerate() {
        if call(trace, number).is_ok() != (*end <= room) {
            return Some(number);
        }
    }
    None
}

/// A writer that takes this many bytes, at most three at a time, and then fails once: with an error
/// of this kind, or by taking none. After that it takes all.
#[derive(Drop)]
struct Failing {
    taken: Vec<u8>,
    room: Option<usize>,
    error: Option<ErrorKind>,
}

impl Write for Failing {
    fn write(&mut self, bytes: &[u8]) -> io::Result<usize> {
        let count = bytes.len().min(self.room.unwrap_or(3)).min(3);
        if count == 0 {
            self.room = None;
            return match self.error {
                Some(kind) => Err(io::Error::from(kind)),
                None => Ok(0),
            };
        }
        self.taken.extend_from_slice(&bytes[..count])?;
        if let Some(room) = self.room {
            self.room = Some(room - count);
        }
        Ok(count)
    }

    fn flush(&mut self) -> io::Result<()> {
        Ok(())
    }
}

// Whether the worked log is written by its calls, all of which succeed.
fn is_worked_log_written(alloc: Global) -> bool {
    let mut trace = TraceWriter::new(Vec::new(alloc));
    first_other_call(&mut trace, WORKED.len()).is_none() && trace.into_inner().as_slice() == WORKED
}

#[test]
fn writes_the_worked_log(rt: HostRuntime) {
    assert_eq!(rt; WORKED.len(), 76);
    assert!(rt; is_worked_log_written(rt.alloc()));
}

// Writes a server's header and two RELEASEs.
fn write_releases<W: Write>(trace: &mut TraceWriter<W>) -> Result<(), WriteFault> {
    trace.header(&Header {
        version: 1,
        server: true,
        releases: false,
    })?;
    trace.release(0x1234)?;
    trace.release(1)
}

// Whether they are written as these bytes.
fn are_releases_written(alloc: Global, log: &[u8]) -> bool {
    let mut trace = TraceWriter::new(Vec::new(alloc));
    write_releases(&mut trace).is_ok() && trace.into_inner().as_slice() == log
}

#[test]
fn writes_a_servers_header_and_a_release(rt: HostRuntime) {
    let log = b"MQTR\x01\x01\x00\x00\x06\x00\x00\x00\x02\x12\x34\x06\x00\x00\x00\x02\x00\x01";
    assert!(rt; are_releases_written(rt.alloc(), log));
}

// Writes a client's header and an OPEN, and at a later moment what was sent and a RELEASE.
#[tactic(auto, using(mq_trace::proofs::Exports::longest_most))]
fn write_moments<W: Write>(trace: &mut TraceWriter<W>) -> Result<(), WriteFault> {
    trace.header(&Header {
        version: 2,
        server: false,
        releases: true,
    })?;
    trace.open()?;
    trace.moment(0x0102_0304_0506_0708);
    trace.sent(b"\xc0\x00")?;
    trace.release(7)
}

// Whether they are written as these bytes.
fn are_moments_written(alloc: Global, log: &[u8]) -> bool {
    let mut trace = TraceWriter::new(Vec::new(alloc));
    write_moments(&mut trace).is_ok() && trace.into_inner().as_slice() == log
}

#[test]
fn writes_moments_in_version_2(rt: HostRuntime) {
    let log = b"MQTR\x02\x00\x01\x00\
        \x01\x00\x00\x00\x00\x00\x00\x00\x00\x00\x00\x00\x00\
        \x02\x00\x00\x00\x02\x01\x02\x03\x04\x05\x06\x07\x08\xc0\x00\
        \x06\x00\x00\x00\x02\x01\x02\x03\x04\x05\x06\x07\x08\x00\x07";
    assert!(rt; are_moments_written(rt.alloc(), log));
}

// Whether this is what a record sent without a body gives, and one received with this body.
fn are_bodies(written: &[u8], body: &[u8]) -> bool {
    written.len() == 1_048_586
        && written.starts_with(b"\x02\x00\x00\x00\x00\x03\x00\x10\x00\x00")
        && written.ends_with(body)
}

// Whether both are written so.
#[tactic(auto, using(mq_trace::proofs::Exports::longest_most))]
fn are_bodies_written(alloc: Global) -> Result<bool, Fail> {
    let body = vec![in alloc; 0xA5; 1_048_576]?;
    let mut trace = TraceWriter::new(Vec::new(alloc));
    trace.sent(&[])?;
    trace.recv(&body)?;
    Ok(are_bodies(trace.into_inner().as_slice(), &body))
}

#[test]
fn writes_the_shortest_and_the_longest_body(rt: HostRuntime) -> Result<(), Fail> {
    assert!(rt; are_bodies_written(rt.alloc())?);
    Ok(())
}

const UNTOUCHED: [u8; 76] = [0xEE; 76];

// Whether the calls fill the space of a log that has this room, and write nothing after it.
fn fills(room: usize) -> bool {
    let mut log = UNTOUCHED;
    let Some(space) = log.get_mut(..room) else {
        return false;
    };
    let mut trace = TraceWriter::new(space);
    let is_filled = first_other_call(&mut trace, room).is_none() && trace.into_inner().is_empty();
    is_filled && log.get(..room) == WORKED.get(..room) && log.get(room..) == UNTOUCHED.get(room..)
}

#[test]
fn stops_where_there_is_no_room(rt: HostRuntime) {
    for room in 0..WORKED.len() {
        assert!(rt; fills(room), "room for {room}");
    }
}

// Whether a writer that has this room, and then fails in this way, takes the beginning of the
// worked log alone.
fn takes_the_beginning(alloc: Global, error: Option<ErrorKind>, room: usize) -> bool {
    let mut trace = TraceWriter::new(Failing {
        taken: Vec::new(alloc),
        room: Some(room),
        error,
    });
    let is_called = first_other_call(&mut trace, room).is_none();
    let has_failed = is_called && trace.release(1) == Err(WriteFault::Write);
    has_failed && Some(trace.into_inner().taken.as_slice()) == WORKED.get(..room)
}

#[test]
fn writes_nothing_after_a_failure(rt: HostRuntime) {
    for error in [None, Some(ErrorKind::Interrupted), Some(ErrorKind::Other)] {
        for room in 0..WORKED.len() {
            assert!(rt;
                takes_the_beginning(rt.alloc(), error, room),
                "room for {room}"
            );
        }
    }
}
