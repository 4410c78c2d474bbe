//! The first bytes of a log, and what to do with a file that isn't one.
ghost use Rattle.std.specs.Prelude.{◌≡◌, ◌≢◌, ◌≤◌, ◌⊎◌, IfErr, IfOk, length, option_to_list, IsNone, take};
ghost use Rattle.std.specs.Io.KnownBytes.{Consumes, IsAtEnd};
ghost use Rattle.mq_host.specs.Streams.{IsTold, stream};
ghost use Rattle.mq_host.specs.Troubles.{hint_line, is_capture, is_compressed};

use crate::error_stream::ErrorStream;
use crate::trouble::{Reason, Trouble};
use std::alloc::Global;
use std::io::{self, ErrorKind, Read};

// How many bytes show what a file is, and whether its header is that of a log.
const ENOUGH: usize = 8;

// How often an interrupted read is tried again.
const TRIES: u32 = 1_000;

/// Reads the first bytes of a log: eight, as many as its header has, or all if there are fewer.
///
/// # Errors
///
/// `Unread` if reading failed, and `Memory`.
pub fn read_start<R: Read>(alloc: Global, reader: &mut R) -> Result<Vec<u8>, Trouble>
    ensures taken { IfOk result (λ start. Consumes (R.remaining reader.old) (R.remaining reader.new) start.items) }
    ensures enough { IfOk result (λ start. (length start.items ≡ 8) ⊎ IsAtEnd (R.remaining reader.new)) }
    ensures few { IfOk result (λ start. length start.items ≤ 8) }
    ensures trouble { IfErr result (λ trouble. trouble ≢ Trouble.Write) }
{
    let mut start = Vec::new(alloc);
    while start.len() < ENOUGH {
        match read_byte(reader) {
            Ok(Some(byte)) => {
                if start.push(byte).is_err() {
                    return Err(Trouble::Memory);
                }
            }
            Ok(None) => return Ok(start),
            Err(error) => return Err(Trouble::Unread(Reason::of(error.kind()))),
        }
    }
    Ok(start)
}

// The next byte, if there is one.
fn read_byte<R: Read>(reader: &mut R) -> io::Result<Option<u8>>
    ensures taken { IfOk result (λ byte. Consumes (R.remaining reader.old) (R.remaining reader.new) (option_to_list byte)) }
    ensures ended { IfOk result (λ byte. IsNone byte → IsAtEnd (R.remaining reader.new)) }
{
    let mut bytes = [0];
    for _try in 0..TRIES {
        match reader.read(&mut bytes) {
            Ok(0) => return Ok(None),
            Ok(_) => return Ok(Some(bytes[0])),
            Err(error) => {
                if error.kind() != ErrorKind::Interrupted {
                    return Err(error);
                }
            }
        }
    }
    Err(ErrorKind::Interrupted.into())
}

/// Writes to `error` what to do with a file that begins with these bytes, if they show that it is
/// another kind of file than a log.
pub fn give_hint<E: ErrorStream>(start: &[u8], error: &mut E)
    ensures { IsTold (stream E.contents E.has_failed error.old error.new) (hint_line start.now) }
{
    // Nothing more can be done if `error` fails.
    let _ = error.write_message(hint(start));
}

// What to do with a file that begins with these bytes: empty if they don't show what it is.
fn hint(start: &[u8]) -> &'static str
    ensures { result.now ≡ hint_line start.now }
{
    if is_capture(start) {
        return "mqjudge: it is a capture: recorders/from-capture makes logs of it\n";
    }
    if is_compressed(start) {
        return "mqjudge: it is compressed by gzip: unpack it first; of a capture recorders/from-capture makes logs\n";
    }
    ""
}

// Whether a file that begins with these bytes is a capture of network packets: pcap, in either
// order of bytes, with times in microseconds or nanoseconds, or pcapng.
fn is_capture(start: &[u8]) -> bool
    ensures { result ≡ is_capture start.now }
{
    let mark = first(start, 4);
    if mark == b"\xd4\xc3\xb2\xa1".as_slice() || mark == b"\xa1\xb2\xc3\xd4".as_slice() {
        return true;
    }
    if mark == b"\x4d\x3c\xb2\xa1".as_slice() || mark == b"\xa1\xb2\x3c\x4d".as_slice() {
        return true;
    }
    mark == b"\x0a\x0d\x0d\x0a".as_slice()
}

// Whether a file that begins with these bytes is compressed by gzip.
fn is_compressed(start: &[u8]) -> bool
    ensures { result ≡ is_compressed start.now }
{
    first(start, 2) == b"\x1f\x8b".as_slice()
}

// The first bytes, so many or all if there are fewer.
fn first(bytes: &[u8], count: usize) -> &[u8]
    ensures { result.now ≡ take count bytes.now }
{
    if count < bytes.len() {
        &bytes[..count]
    } else {
        bytes
    }
}
