//! Converts a log of version 1 into one of version 2: each record the same, with the moment 0.
ghost use Rattle.std.specs.Prelude.{◌≡◌, ◌+◌, ◌*◌, ◌<◌, ◌≤◌, ◌^◌, ◌∷◌, ◌++◌, [], ℕ, List, IfOk, IfErr, IfSome, OnOk, None, Some, true, false, length, take};
ghost use Rattle.std.specs.Io.KnownBytes.{Appends};
ghost use Rattle.mq_trace.specs.Converting.{Converts, first_version_refusal, unconverted_at};
ghost use Rattle.mq_trace.specs.Copying.{Adds, BeginsCopy, IsCopyOf, IsSound, StopsCopying, WritesMore, added_bytes, connected_after, fault_of, header_addition, in_length, is_between, past_body, past_header_byte, past_length, refused_begin};
ghost use Rattle.mq_log.specs.Framing.{kind_named};
ghost use Rattle.mq_log.specs.Refusals.{allows_length, is_cut_short};
ghost use Rattle.mq_trace.specs.Writing.{AppendsBeginning};
ghost use Rattle.mq_trace.specs.declared.converting.Addition.TheVariants as additions;
ghost use Rattle.mq_trace.specs.declared.converting.ConvertFault.TheVariants as faults;
ghost use Rattle.mq_trace.specs.declared.converting.Part.TheVariants as parts;
ghost use Rattle.mq_log.specs.declared.refusal.Refusal.TheVariants as refusals;

use super::feeding::{Feed, Halt, feed_all};
use super::head::{Head, HeadStep};
use super::writer::{WriteFault, bytes_of, write_bytes};
use mq_log::{
    HEADER_LENGTH, Header, RecordKind, Refusal, VERSION_AT, header_after, header_refusal,
};
use std::io::{Read, Write};
use std::marker::{Brand, Model, PhantomData};

/// Why a log wasn't converted to its end.
#[derive(Clone, Copy, Debug, PartialEq, Eq)]
pub enum ConvertFault {
    /// The log is refused: its header isn't one of version 1, a record is invalid by itself, the
    /// log is cut short, or the reader failed. What packets it carries doesn't matter.
    Refused(Refusal),
    /// A write failed.
    Write,
}

/// Where in a record the log that is copied is.
#[derive(Clone, Copy)]
enum Part {
    /// Between two records.
    Between,
    /// Inside a record's kind and length: its kind came, and 0 to 3 of the four bytes of its body's
    /// length: the fields of a `Head`, which is quicker than the struct.
    Head {
        /// The kind that the record's first byte names.
        kind: RecordKind,
        /// How many bytes of the length came: 0 to 3.
        count: u8,
        /// The number that they spell, the most significant byte first.
        number: u32,
    },
    /// Inside a body, of which so many bytes are still to come.
    Body(u32),
}

impl Part {
    // Whether it is between two records.
    fn is_between(self) -> bool
        ensures { result ≡ is_between self }
    {
        match self {
            Part::Between => true,
            Part::Head { .. } | Part::Body(_) => false,
        }
    }
}

impl Halt<ConvertFault> {
    // The fault that stopped the converter; or `Read`, at the number of bytes that were read, if
    // the reader failed or the turns ran out.
    fn fault(self) -> ConvertFault
        ensures { result ≡ fault_of self }
    {
        match self {
            Halt::Stopped(fault) => fault,
            Halt::Failed(read) | Halt::RanOut(read) => ConvertFault::Refused(Refusal::Read(read)),
        }
    }
}

/// What a byte of the log adds to what is written.
enum Addition {
    /// Nothing: the header isn't whole.
    Nothing,
    /// The whole header.
    Header(Header),
    /// The byte.
    Byte(u8),
    /// The byte, which is the last of a record's length, and the moment 0.
    Moment(u8),
}

/// What a writer held before a log was converted. Each call of `convert_all` picks it.
trait Holding {
    ghost use Rattle.std.specs.Prelude.{ℕ, List, Option};

    ghost held: { Option (List ℕ) };
}

impl Holding for Brand {
    ghost use Rattle.std.specs.Prelude.{None};

    ghost held = { None };
}

/// What is kept of a log that is copied.
#[derive(Drop)]
struct Copying {
    /// How many of its bytes came.
    at: u64,
    /// What its header says, as far as it came.
    header: Header,
    /// How many whole records came.
    records: u32,
    /// Whether a connection is open.
    connected: bool,
    /// Where in a record it is.
    part: Part,
}

impl Copying {
    // What is kept before the first byte.
    fn new() -> Self
        ensures copy { IsCopyOf result [] }
        ensures sound { IsSound result }
    {
        Copying {
            at: 0,
            header: Header {
                version: 0,
                server: false,
                releases: false,
            },
            records: 0,
            connected: false,
            part: Part::Between,
        }
    }

    // Copies all of a piece.
    //
    // Errors: `Refused` if a byte of it is refused, and `Write` if a write failed.
    fn copy<W: Write>(&mut self, piece: &[u8], writer: &mut W) -> Result<(), ConvertFault>
        requires sound { IsSound self.old }
        ensures sound { IsSound self.new }
        ensures copied { (log : List ℕ) → IsCopyOf self.old log → OnOk result (IsCopyOf self.new (log ++ piece.now) × WritesMore log piece.now (W.contents writer.old) (W.contents writer.new)) }
        ensures stops { (log : List ℕ) → IsCopyOf self.old log → IfErr result (StopsCopying log piece.now (W.contents writer.old) (W.contents writer.new)) }
    {
        let mut rest = piece;
        while !rest.is_empty() {
            match self.copy_some(rest, writer) {
                Ok(count) => rest = &rest[count..],
                Err(fault) => return Err(fault),
            }
        }
        Ok(())
    }

    // Copies some of the next bytes, of which there must be one, and returns how many.
    //
    // Errors: As `copy`.
    fn copy_some<W: Write>(&mut self, bytes: &[u8], writer: &mut W) -> Result<usize, ConvertFault>
        requires some { 1 ≤ length bytes.now }
        requires sound { IsSound self.old }
        ensures sound { IsSound self.new }
        ensures count { IfOk result (λ n. (1 ≤ n) × (n ≤ length bytes.now)) }
        ensures copied { (log : List ℕ) → IsCopyOf self.old log → IfOk result (λ n. IsCopyOf self.new (log ++ take n bytes.now) × WritesMore log (take n bytes.now) (W.contents writer.old) (W.contents writer.new)) }
        ensures stops { (log : List ℕ) → IsCopyOf self.old log → IfErr result (StopsCopying log bytes.now (W.contents writer.old) (W.contents writer.new)) }
    {
        if let Part::Body(left) = self.part {
            return self.copy_body(left, bytes, writer);
        }
        match self.take_byte(bytes[0]) {
            Ok(addition) => match write_addition(addition, writer) {
                Ok(()) => Ok(1),
                Err(fault) => Err(fault),
            },
            Err(refusal) => Err(ConvertFault::Refused(refusal)),
        }
    }

    // Copies bytes of a body, of which `left` are still to come, and returns how many.
    //
    // Errors: `Write` if a write failed.
    fn copy_body<W: Write>(
        &mut self,
        left: u32,
        bytes: &[u8],
        writer: &mut W,
    ) -> Result<usize, ConvertFault>
        requires some { 1 ≤ length bytes.now }
        requires sound { IsSound self.old }
        requires within { self.old.part ≡ parts.Body left }
        ensures sound { IsSound self.new }
        ensures count { IfOk result (λ n. (1 ≤ n) × (n ≤ length bytes.now)) }
        ensures copied { (log : List ℕ) → IsCopyOf self.old log → IfOk result (λ n. IsCopyOf self.new (log ++ take n bytes.now) × WritesMore log (take n bytes.now) (W.contents writer.old) (W.contents writer.new)) }
        ensures stops { (log : List ℕ) → IsCopyOf self.old log → IfErr result (StopsCopying log bytes.now (W.contents writer.old) (W.contents writer.new)) }
    {
        let count = bytes.len().min(left as usize);
        self.skip_body(left, count as u32);
        match write_bytes(&bytes[..count], writer) {
            Ok(()) => Ok(count),
            Err(WriteFault::Write) => Err(ConvertFault::Write),
        }
    }

    // Takes in `count` bytes of a body, of which `left` are still to come.
    fn skip_body(&mut self, left: u32, count: u32)
        requires some { 1 ≤ count }
        requires few { count ≤ left }
        requires sound { IsSound self.old }
        requires within { self.old.part ≡ parts.Body left }
        ensures sound { IsSound self.new }
        ensures is { self.new ≡ past_body self.old left count }
    {
        self.at += u64::from(count);
        if left == count {
            self.records += 1;
            self.part = Part::Between;
        } else {
            self.part = Part::Body(left - count);
        }
    }

    // Takes in a byte, and returns what it adds to what is written.
    //
    // Errors: The refusal that applies at the byte.
    fn take_byte(&mut self, byte: u8) -> Result<Addition, Refusal>
        requires sound { IsSound self.old }
        ensures sound { IsSound self.new }
        ensures copied { (log : List ℕ) → IsCopyOf self.old log → IfOk result (λ addition. IsCopyOf self.new (log ++ byte ∷ []) × Adds log (byte ∷ []) (added_bytes addition)) }
        ensures refused { (log : List ℕ) → IsCopyOf self.old log → IfErr result (λ refusal. unconverted_at log byte ≡ Some refusal) }
    {
        if self.at < HEADER_LENGTH {
            return self.take_header_byte(byte);
        }
        match self.part {
            Part::Between => self.begin_record(byte),
            Part::Head {
                kind,
                count,
                number,
            } => {
                let head = Head {
                    kind,
                    count,
                    number,
                };
                self.extend_length(head, byte)
            }
            Part::Body(left) => {
                self.skip_body(left, 1);
                Ok(Addition::Byte(byte))
            }
        }
    }

    // Takes in a byte of the header.
    //
    // Errors: The refusal that applies at the byte.
    fn take_header_byte(&mut self, byte: u8) -> Result<Addition, Refusal>
        requires begun { self.old.at < 8 }
        ensures refused { IfErr result (λ refusal. (first_version_refusal self.old.at byte ≡ Some refusal) × (self.new ≡ self.old)) }
        ensures kept { IfOk result (λ addition. (first_version_refusal self.old.at byte ≡ None) × (self.new ≡ past_header_byte self.old byte) × (addition ≡ header_addition self.new)) }
    {
        if let Some(refusal) = first_version_refusal(self.at, byte) {
            return Err(refusal);
        }
        self.header = header_after(self.header, self.at, byte);
        self.at += 1;
        Ok(self.header_addition())
    }

    // What the last byte of the header that came adds: the whole header, in version 2, if it is its
    // last.
    fn header_addition(&self) -> Addition
        ensures { result ≡ header_addition self.now }
    {
        if self.at != HEADER_LENGTH {
            return Addition::Nothing;
        }
        Addition::Header(Header {
            version: 2,
            server: self.header.server,
            releases: self.header.releases,
        })
    }

    // Takes in a record's first byte.
    //
    // Errors: The refusal that applies at the byte.
    fn begin_record(&mut self, byte: u8) -> Result<Addition, Refusal>
        requires room { self.old.at + 1 < 2 ^ 64 }
        ensures refused { IfErr result (λ refusal. (refused_begin self.old (kind_named byte) ≡ Some refusal) × (self.new ≡ self.old)) }
        ensures kept { IfOk result (λ addition. BeginsCopy self.old self.new byte addition) }
    {
        let releases = self.header.releases;
        match Head::from_byte(byte, self.at, releases, self.connected, self.records) {
            Ok(head) => {
                self.at += 1;
                self.part = Part::Head {
                    kind: head.kind,
                    count: head.count,
                    number: head.number,
                };
                Ok(Addition::Byte(byte))
            }
            Err(refusal) => Err(refusal),
        }
    }

    // Takes in the next byte of a record's length, after this much of its head.
    //
    // Errors: `Length`, at the byte, if it is the last one and the kind doesn't allow the length.
    fn extend_length(&mut self, head: Head, byte: u8) -> Result<Addition, Refusal>
        requires sound { IsSound self.old }
        requires within { self.old.part ≡ parts.Head head.kind head.count head.number }
        ensures sound { IsSound self.new }
        ensures refused { IfErr result (λ refusal. (head.count ≡ 3) × (allows_length 1 (Some head.kind) (head.number * 256 + byte) ≡ false) × (refusal ≡ refusals.Length self.old.at) × (self.new ≡ self.old)) }
        ensures more { head.count < 3 → IfOk result (λ addition. (self.new ≡ in_length self.old head.kind (head.count + 1) (head.number * 256 + byte)) × (addition ≡ additions.Byte byte)) }
        ensures last { head.count ≡ 3 → IfOk result (λ addition. (allows_length 1 (Some head.kind) (head.number * 256 + byte) ≡ true) × (self.new ≡ past_length self.old head.kind (head.number * 256 + byte)) × (addition ≡ additions.Moment byte)) }
    {
        match head.step(1, byte) {
            HeadStep::GoesOn { count, number } => {
                self.at += 1;
                self.part = Part::Head {
                    kind: head.kind,
                    count,
                    number,
                };
                Ok(Addition::Byte(byte))
            }
            HeadStep::Ends(length) => {
                self.end_length(head.kind, length);
                Ok(Addition::Moment(byte))
            }
            HeadStep::Barred => Err(Refusal::Length(self.at)),
        }
    }

    // Takes in the last byte of the length of a record of this kind, which is this number.
    fn end_length(&mut self, kind: RecordKind, length: u32)
        requires room { self.old.at + 1 < 2 ^ 64 }
        requires numbered { self.old.records < 4294967295 }
        ensures { self.new ≡ past_length self.old kind length }
    {
        self.at += 1;
        self.connected = connected_after(kind, self.connected);
        if length == 0 {
            self.records += 1;
            self.part = Part::Between;
        } else {
            self.part = Part::Body(length);
        }
    }

    // Whether the log is cut short: it ends inside its header or a record.
    fn is_cut_short(&self) -> bool
        ensures { (log : List ℕ) → IsCopyOf self.now log → result ≡ is_cut_short log }
    {
        self.at < HEADER_LENGTH || !self.part.is_between()
    }
}

// Whether a connection is open after the head of a record of this kind, if it was before it or not.
fn connected_after(kind: RecordKind, connected: bool) -> bool
    ensures { result ≡ connected_after kind connected }
{
    match kind {
        RecordKind::Open => true,
        RecordKind::Close => false,
        RecordKind::Sent | RecordKind::Recv | RecordKind::Rest | RecordKind::Release => connected,
    }
}

// The refusal of a byte of the header of a log of version 1, at this offset, if the byte is invalid
// there.
fn first_version_refusal(at: u64, byte: u8) -> Option<Refusal>
    requires { at < 8 }
    ensures { result ≡ first_version_refusal at byte }
{
    if at != VERSION_AT {
        return header_refusal(at, byte);
    }
    if byte == 1 {
        None
    } else {
        Some(Refusal::Version(at))
    }
}

// Writes what a byte of a log adds.
//
// Errors: `Write` if a write failed.
fn write_addition<W: Write>(addition: Addition, writer: &mut W) -> Result<(), ConvertFault>
    ensures ok { OnOk result (Appends (W.contents writer.old) (W.contents writer.new) (added_bytes addition)) }
    ensures write { IfErr result (λ fault. (fault ≡ faults.Write) × AppendsBeginning (W.contents writer.old) (W.contents writer.new) (added_bytes addition)) }
{
    let written = match addition {
        Addition::Nothing => return Ok(()),
        Addition::Header(header) => write_bytes(&bytes_of(header), writer),
        Addition::Byte(byte) => write_bytes(&[byte], writer),
        Addition::Moment(byte) => write_bytes(&[byte, 0, 0, 0, 0, 0, 0, 0, 0], writer),
    };
    match written {
        Ok(()) => Ok(()),
        Err(WriteFault::Write) => Err(ConvertFault::Write),
    }
}

/// Copies a log to a writer that held something before.
///
/// No code uses `K`. It is there for the proofs: by it `follows` can say what the writer held
/// before the first piece.
#[derive(Drop)]
struct Converter<K> {
    copying: Copying,
    of: PhantomData<K>,
}

impl<K> Model for Converter<K> {
    ghost use Rattle.mq_trace.specs.Copying.{IsSound};
    ghost use Rattle.mq_trace.specs.declared.converting.Copying.{Copying};

    ghost Value = { Copying };

    ghost view = { λ c. c.copying };

    ghost invariant = { λ c. IsSound c.copying };
}

impl<K> Converter<K> {
    // Ends the log.
    //
    // Errors: `Cut`, at the log's length, if the log is cut short.
    fn finish(&self) -> Result<(), ConvertFault>
        ensures ok { (log : List ℕ) → IsCopyOf self.now log → OnOk result (is_cut_short log ≡ false) }
        ensures cut { (log : List ℕ) → IsCopyOf self.now log → IfErr result (λ fault. (fault ≡ faults.Refused (refusals.Cut (length log))) × (is_cut_short log ≡ true)) }
    {
        if self.copying.is_cut_short() {
            return Err(ConvertFault::Refused(Refusal::Cut(self.copying.at)));
        }
        Ok(())
    }
}

impl<W: Write, K: Holding> Feed<W, ConvertFault> for Converter<K> {
    ghost use Rattle.mq_trace.specs.Copying.{IsCopyOf, IsHeld, StopsIn};

    ghost limit = { λ _. 0 };

    ghost follows = { λ converter writer log. IsCopyOf converter log × IsHeld K.held (W.contents writer) log };

    ghost stops = { λ _ _ writer log piece fault. StopsIn K.held (W.contents writer) log piece fault };

    fn feed(&mut self, writer: &mut W, piece: &[u8]) -> Result<(), ConvertFault> {
        self.copying.copy(piece, writer)
    }
}

/// Converts the log of version 1 that a reader gives into one of version 2: each record the same,
/// with the moment 0. Only its header and its records are looked at; what packets they carry
/// doesn't matter. It takes no memory. It reads at most 4,294,967,295 times, and at most 8,192
/// bytes each time; an interrupted read is retried.
///
/// What is written of a log that isn't refused is the whole log in version 2. Of one that is
/// refused at a byte, or cut short, or whose reader failed, it is that as far as it goes: all
/// before that byte, without an unfinished header.
///
/// # Errors
///
/// `Refused` with the refusal that applies first: `Header`, `Version`, where the version isn't 1,
/// `Role`, `Flags`, `Kind`, `Length`, `Nested`, `NotOpen`, `ReleaseUnrecorded`, `TooLong`, where
/// there are more than 4,294,967,295 records; `Cut` at the log's length, if it ends inside its
/// header or a record; `Read`, at the number of bytes that were read, if the reader fails or hasn't
/// ended after the last read. `Write` if a write failed: a beginning, but not all, of what is
/// written of the bytes that were read was then written.
///
/// # Examples
///
/// ```
/// let log = b"MQTR\x01\x00\x01\x00\x01\x00\x00\x00\x00";
/// let mut second = Vec::new(rt.alloc());
/// convert(&mut log.as_slice(), &mut second)?;
/// let timed = b"MQTR\x02\x00\x01\x00\x01\x00\x00\x00\x00\x00\x00\x00\x00\x00\x00\x00\x00";
/// assert_eq!(rt; second.as_slice(), timed.as_slice());
/// ```
pub fn convert<R: Read, W: Write>(reader: &mut R, writer: &mut W) -> Result<(), ConvertFault>
    ensures { IfSome (R.remaining reader.old) (λ log. Converts log (R.remaining reader.new) result (W.contents writer.old) (W.contents writer.new)) }
{
    convert_all::<R, W, Brand>(reader, writer)
}

// Converts as `convert` does, to a writer of which it is known what it holds, if that was picked.
fn convert_all<R: Read, W: Write, K: Holding>(
    reader: &mut R,
    writer: &mut W,
) -> Result<(), ConvertFault>
    requires held { W.contents writer.old ≡ K.held }
    ensures { IfSome (R.remaining reader.old) (λ log. Converts log (R.remaining reader.new) result (W.contents writer.old) (W.contents writer.new)) }
{
    let mut converter = Converter::<K> {
        copying: Copying::new(),
        of: PhantomData,
    };
    let mut buffer = [0; 8192];
    match feed_all(&mut converter, writer, reader, &mut buffer, u32::MAX) {
        Ok(()) => converter.finish(),
        Err(halt) => Err(halt.fault()),
    }
}
