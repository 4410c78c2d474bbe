//! Writing a log.
ghost use Rattle.std.specs.Prelude.{◌≡◌, ◌==◌, ◌≤◌, true, false, Some, ◌++◌, ◌∷◌, length, codes, OnOk, OnErr};
ghost use Rattle.std.specs.Int.{w32, w64, to_be_bytes};
ghost use Rattle.std.specs.Io.KnownBytes.{Appends};
ghost use Rattle.mq_log.specs.Framing.{is_version, longest_body};
ghost use Rattle.mq_trace.specs.Writing.{header_bytes, kind_byte, framed, open_record, close_record, rest_record, sent_record, received_record, release_record, record_bytes, AppendsBeginning, WritesAll, FailsToWrite};

mod laws;

use mq_log::{Header, LENGTH_END, MAGIC, MOMENT_END, RecordKind, has_moments};
use std::error::Error;
use std::fmt;
use std::io::Write;
use std::marker::Model;

/// Why writing a log failed.
#[derive(Clone, Copy, Debug, PartialEq, Eq)]
pub enum WriteFault {
    /// A write failed: the writer returned an error, also one for an interruption, or took no byte.
    Write,
}

impl fmt::Display for WriteFault {
    ghost output = { λ _. Some (codes "the log could not be written") };

    fn fmt<W: fmt::Write>(&self, f: &mut fmt::Formatter<W>) -> fmt::Result {
        write!(f, "the log could not be written")
    }
}

impl Error for WriteFault {}

/// Writes a log, its header and its records, in the order of the calls. It takes no memory. The
/// header says the version; in version 2 each record has a moment.
///
/// The caller must write the header first and once, and each record only where the format allows
/// it.
///
/// A call in which a write fails has written a beginning of its header or record, but not all of
/// it. Each later call fails with `Write` too, and writes nothing.
///
/// # Examples
///
/// The log of a client that sends a PINGREQ:
///
/// ```
/// let mut log = TraceWriter::new(Vec::new(rt.alloc()));
/// log.header(&Header {
///     version: 1,
///     server: false,
///     releases: true,
/// })?;
/// log.open()?;
/// log.sent(b"\xc0\x00")?;
/// let bytes = b"MQTR\x01\x00\x01\x00\x01\x00\x00\x00\x00\x02\x00\x00\x00\x02\xc0\x00";
/// assert_eq!(rt; log.into_inner().as_slice(), bytes.as_slice());
/// ```
#[derive(Drop)]
pub struct TraceWriter<W: Write> {
    writer: W,
    has_failed: bool,
    version: u8,
    moment: u64,
}

impl<W: Write> Model for TraceWriter<W> {
    ghost use Rattle.mq_trace.specs.Writing.{Tracing};

    ghost Value = { Tracing W };

    ghost view = { λ tracing. record { writer = tracing.writer; has_failed = tracing.has_failed; version = tracing.version; moment = tracing.moment } };
}

impl<W: Write> TraceWriter<W> {
    /// Makes a `TraceWriter` over a writer. Nothing is written yet.
    pub fn new(writer: W) -> Self
        ensures writer { result.writer ≡ writer }
        ensures unfailed { result.has_failed ≡ false }
        ensures version { result.version ≡ 1 }
        ensures moment { result.moment ≡ 0 }
    {
        TraceWriter {
            writer,
            has_failed: false,
            version: 1,
            moment: 0,
        }
    }

    /// Sets the moment of the records that are written after this, 0 at first. Only a log of
    /// version 2 has it.
    pub fn moment(&mut self, moment: u64)
        ensures { self.new ≡ record self.old { moment = moment } }
    {
        self.moment = moment;
    }

    /// Writes the header of a log, of version 1 or 2.
    ///
    /// # Errors
    ///
    /// `Write` if a write failed, in this call or in an earlier one.
    pub fn header(&mut self, header: &Header) -> Result<(), WriteFault>
        requires { is_version header.now.version ≡ true }
        ensures ok { OnOk result (WritesAll W.contents self.old self.new (header_bytes header.now)) }
        ensures write { OnErr result (FailsToWrite W.contents self.old self.new (header_bytes header.now)) }
        ensures version { self.new.version ≡ header.now.version }
        ensures moment { self.new.moment ≡ self.old.moment }
    {
        self.version = header.version;
        self.write(&bytes_of(*header), &[])
    }

    /// Writes an OPEN: a network connection begins.
    ///
    /// # Errors
    ///
    /// `Write` if a write failed, in this call or in an earlier one.
    pub fn open(&mut self) -> Result<(), WriteFault>
        ensures ok { OnOk result (WritesAll W.contents self.old self.new (record_bytes self.old.version self.old.moment open_record)) }
        ensures write { OnErr result (FailsToWrite W.contents self.old self.new (record_bytes self.old.version self.old.moment open_record)) }
        ensures same { (self.new.version ≡ self.old.version) × (self.new.moment ≡ self.old.moment) }
    {
        self.record(RecordKind::Open, &[])
    }

    /// Writes a SENT: bytes that the tested end sent, at most 1,048,576 of them, or 16,777,216 in
    /// version 2.
    ///
    /// # Errors
    ///
    /// `Write` if a write failed, in this call or in an earlier one.
    #[tactic(auto, using(crate::proofs::EndLaws::longest_least))]
    pub fn sent(&mut self, body: &[u8]) -> Result<(), WriteFault>
        requires { length body.now ≤ longest_body self.old.version }
        ensures ok { OnOk result (WritesAll W.contents self.old self.new (record_bytes self.old.version self.old.moment (sent_record body.now))) }
        ensures write { OnErr result (FailsToWrite W.contents self.old self.new (record_bytes self.old.version self.old.moment (sent_record body.now))) }
        ensures same { (self.new.version ≡ self.old.version) × (self.new.moment ≡ self.old.moment) }
    {
        self.record(RecordKind::Sent, body)
    }

    /// Writes a RECV: bytes that the tested end received, at most 1,048,576 of them, or 16,777,216
    /// in version 2.
    ///
    /// # Errors
    ///
    /// `Write` if a write failed, in this call or in an earlier one.
    #[tactic(auto, using(crate::proofs::EndLaws::longest_least))]
    pub fn recv(&mut self, body: &[u8]) -> Result<(), WriteFault>
        requires { length body.now ≤ longest_body self.old.version }
        ensures ok { OnOk result (WritesAll W.contents self.old self.new (record_bytes self.old.version self.old.moment (received_record body.now))) }
        ensures write { OnErr result (FailsToWrite W.contents self.old self.new (record_bytes self.old.version self.old.moment (received_record body.now))) }
        ensures same { (self.new.version ≡ self.old.version) × (self.new.moment ≡ self.old.moment) }
    {
        self.record(RecordKind::Recv, body)
    }

    /// Writes a CLOSE: the network connection ended.
    ///
    /// # Errors
    ///
    /// `Write` if a write failed, in this call or in an earlier one.
    pub fn close(&mut self) -> Result<(), WriteFault>
        ensures ok { OnOk result (WritesAll W.contents self.old self.new (record_bytes self.old.version self.old.moment close_record)) }
        ensures write { OnErr result (FailsToWrite W.contents self.old self.new (record_bytes self.old.version self.old.moment close_record)) }
        ensures same { (self.new.version ≡ self.old.version) × (self.new.moment ≡ self.old.moment) }
    {
        self.record(RecordKind::Close, &[])
    }

    /// Writes a REST: the tested end is at rest.
    ///
    /// # Errors
    ///
    /// `Write` if a write failed, in this call or in an earlier one.
    pub fn rest(&mut self) -> Result<(), WriteFault>
        ensures ok { OnOk result (WritesAll W.contents self.old self.new (record_bytes self.old.version self.old.moment rest_record)) }
        ensures write { OnErr result (FailsToWrite W.contents self.old self.new (record_bytes self.old.version self.old.moment rest_record)) }
        ensures same { (self.new.version ≡ self.old.version) × (self.new.moment ≡ self.old.moment) }
    {
        self.record(RecordKind::Rest, &[])
    }

    /// Writes a RELEASE: the tested end released the QoS 2 message that it received under this
    /// Packet Identifier.
    ///
    /// # Errors
    ///
    /// `Write` if a write failed, in this call or in an earlier one.
    pub fn release(&mut self, identifier: u16) -> Result<(), WriteFault>
        ensures ok { OnOk result (WritesAll W.contents self.old self.new (record_bytes self.old.version self.old.moment (release_record identifier))) }
        ensures write { OnErr result (FailsToWrite W.contents self.old self.new (record_bytes self.old.version self.old.moment (release_record identifier))) }
        ensures same { (self.new.version ≡ self.old.version) × (self.new.moment ≡ self.old.moment) }
    {
        self.record(RecordKind::Release, &identifier.to_be_bytes())
    }

    /// The underlying writer.
    pub fn into_inner(self) -> W
        ensures { result ≡ self.writer }
    {
        self.writer
    }

    // Writes a record of this kind, with this body.
    fn record(&mut self, kind: RecordKind, body: &[u8]) -> Result<(), WriteFault>
        requires { length body.now ≤ 16777216 }
        ensures ok { OnOk result (WritesAll W.contents self.old self.new (framed self.old.version self.old.moment (kind_byte kind) body.now)) }
        ensures write { OnErr result (FailsToWrite W.contents self.old self.new (framed self.old.version self.old.moment (kind_byte kind) body.now)) }
        ensures same { (self.new.version ≡ self.old.version) × (self.new.moment ≡ self.old.moment) }
    {
        if has_moments(self.version) {
            return self.timed_record(kind, body);
        }
        self.plain_record(kind, body)
    }

    // Writes a record in version 2.
    #[tactic(auto, unfolding(crate::specs::Writing::moment_bytes))]
    fn timed_record(&mut self, kind: RecordKind, body: &[u8]) -> Result<(), WriteFault>
        requires fits { length body.now ≤ 16777216 }
        requires timed { (self.old.version == 2) ≡ true }
        ensures ok { OnOk result (WritesAll W.contents self.old self.new (framed self.old.version self.old.moment (kind_byte kind) body.now)) }
        ensures write { OnErr result (FailsToWrite W.contents self.old self.new (framed self.old.version self.old.moment (kind_byte kind) body.now)) }
        ensures same { (self.new.version ≡ self.old.version) × (self.new.moment ≡ self.old.moment) }
    {
        let head = timed_head(kind, body.len() as u32, self.moment);
        self.write(&head, body)
    }

    // Writes a record in version 1.
    #[tactic(auto, unfolding(crate::specs::Writing::moment_bytes))]
    fn plain_record(&mut self, kind: RecordKind, body: &[u8]) -> Result<(), WriteFault>
        requires fits { length body.now ≤ 16777216 }
        requires untimed { (self.old.version == 2) ≡ false }
        ensures ok { OnOk result (WritesAll W.contents self.old self.new (framed self.old.version self.old.moment (kind_byte kind) body.now)) }
        ensures write { OnErr result (FailsToWrite W.contents self.old self.new (framed self.old.version self.old.moment (kind_byte kind) body.now)) }
        ensures same { (self.new.version ≡ self.old.version) × (self.new.moment ≡ self.old.moment) }
    {
        let head = record_head(kind, body.len() as u32);
        self.write(&head, body)
    }

    // Writes some bytes, and others after them, if no write has failed yet.
    fn write(&mut self, front: &[u8], back: &[u8]) -> Result<(), WriteFault>
        ensures ok { OnOk result (WritesAll W.contents self.old self.new (front.now ++ back.now)) }
        ensures write { OnErr result (FailsToWrite W.contents self.old self.new (front.now ++ back.now)) }
        ensures same { (self.new.version ≡ self.old.version) × (self.new.moment ≡ self.old.moment) }
    {
        if self.has_failed {
            return Err(WriteFault::Write);
        }
        let written = write_both(front, back, &mut self.writer);
        self.has_failed = written.is_err();
        written
    }
}

/// The bytes of a header.
pub fn bytes_of(header: Header) -> [u8; 8]
    ensures { result ≡ header_bytes header }
{
    let server = u8::from(header.server);
    let releases = u8::from(header.releases);
    let [m, q, t, r] = MAGIC;
    [m, q, t, r, header.version, server, releases, 0]
}

// The byte that names a kind of record.
fn byte_of(kind: RecordKind) -> u8
    ensures { result ≡ kind_byte kind }
{
    match kind {
        RecordKind::Open => 1,
        RecordKind::Sent => 2,
        RecordKind::Recv => 3,
        RecordKind::Close => 4,
        RecordKind::Rest => 5,
        RecordKind::Release => 6,
    }
}

// A record's head in version 2: the byte of its kind, the length of its body in bytes, and its
// moment.
fn timed_head(kind: RecordKind, length: u32, moment: u64) -> [u8; MOMENT_END]
    ensures { result ≡ kind_byte kind ∷ to_be_bytes w32 length ++ to_be_bytes w64 moment }
{
    let [highest, high, low, lowest] = length.to_be_bytes();
    let [a, b, c, d, e, f, g, h] = moment.to_be_bytes();
    [
        byte_of(kind),
        highest,
        high,
        low,
        lowest,
        a,
        b,
        c,
        d,
        e,
        f,
        g,
        h,
    ]
}

// A record's head in version 1: the byte of its kind, and the length of its body in bytes.
fn record_head(kind: RecordKind, length: u32) -> [u8; LENGTH_END]
    ensures { result ≡ kind_byte kind ∷ to_be_bytes w32 length }
{
    let [highest, high, low, lowest] = length.to_be_bytes();
    [byte_of(kind), highest, high, low, lowest]
}

// Writes some bytes, and others after them.
//
// Errors: `Write` if a write failed.
fn write_both<W: Write>(front: &[u8], back: &[u8], writer: &mut W) -> Result<(), WriteFault>
    ensures ok { OnOk result (Appends (W.contents writer.old) (W.contents writer.new) (front.now ++ back.now)) }
    ensures write { OnErr result (AppendsBeginning (W.contents writer.old) (W.contents writer.new) (front.now ++ back.now)) }
{
    write_bytes(front, writer)?;
    write_bytes(back, writer)
}

/// Writes these bytes.
///
/// # Errors
///
/// `Write` if a write failed: the writer returned an error, also one for an interruption, or took
/// no byte.
pub fn write_bytes<W: Write>(bytes: &[u8], writer: &mut W) -> Result<(), WriteFault>
    ensures ok { OnOk result (Appends (W.contents writer.old) (W.contents writer.new) bytes.now) }
    ensures write { OnErr result (AppendsBeginning (W.contents writer.old) (W.contents writer.new) bytes.now) }
{
    let mut rest = bytes;
    while !rest.is_empty() {
        match writer.write(rest) {
            Ok(0) | Err(_) => return Err(WriteFault::Write),
            Ok(taken) => rest = &rest[taken..],
        }
    }
    Ok(())
}
