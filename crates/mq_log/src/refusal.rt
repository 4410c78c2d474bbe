//! Why a log can't be judged.
ghost use Rattle.std.specs.Prelude.{◌≡◌, Some};
ghost use Rattle.mq_log.specs.Refusing.{number_of, name_of, refusal_offset, refused_text, moved};

use std::fmt;

/// Why a log is refused, each with the offset in the log of the byte at which its condition first
/// applies. The earliest byte decides, and at one byte the lowest number. The numbers are 1 to 16,
/// in this order.
#[derive(Clone, Copy, Debug, PartialEq, Eq)]
pub enum Refusal {
    /// 1: one of the first four bytes isn't that of `MQTR`.
    Header(u64),
    /// 2: the log's version is neither 1 nor 2.
    Version(u64),
    /// 3: the role is neither 0, a client, nor 1, a server.
    Role(u64),
    /// 4: another flag than bit 0 is set, or the header's last byte isn't 0.
    Flags(u64),
    /// 5: a record's kind isn't 1 to 6.
    Kind(u64),
    /// 6: a record's length isn't one that its kind allows.
    Length(u64),
    /// 7: an OPEN while a connection is open.
    Nested(u64),
    /// 8: a SENT, RECV, CLOSE or REST while none is open.
    NotOpen(u64),
    /// 9: a RELEASE in a log whose header says that releases aren't recorded.
    ReleaseUnrecorded(u64),
    /// 10: the log ends inside its header or a record.
    Cut(u64),
    /// 11: a packet larger than the limit.
    TooLarge(u64),
    /// 12: a CONNECT of another protocol version.
    OtherVersion(u64),
    /// 13: the 4,097th event of a connection, its OPEN counted, which isn't its CLOSE, where none
    /// of the 4,097 is its CONNACK.
    TooManyEarly(u64),
    /// 14: more than 4,294,967,295 records or events.
    TooLong(u64),
    /// 15: the reader failed, or the bound on the number of reads was reached.
    Read(u64),
    /// 16: there was no memory, and no condition applies at the byte. A sink that can't go on, for
    /// whatever reason, returns it too, at offset 0: the tracer moves it to the byte that completed
    /// the event.
    Memory(u64),
}

impl Refusal {
    /// Its number, 1 to 16.
    pub fn number(self) -> u8
        ensures { result ≡ number_of self }
    {
        match self {
            Refusal::Header(_) => 1,
            Refusal::Version(_) => 2,
            Refusal::Role(_) => 3,
            Refusal::Flags(_) => 4,
            Refusal::Kind(_) => 5,
            Refusal::Length(_) => 6,
            Refusal::Nested(_) => 7,
            Refusal::NotOpen(_) => 8,
            Refusal::ReleaseUnrecorded(_) => 9,
            Refusal::Cut(_) => 10,
            Refusal::TooLarge(_) => 11,
            Refusal::OtherVersion(_) => 12,
            Refusal::TooManyEarly(_) => 13,
            Refusal::TooLong(_) => 14,
            Refusal::Read(_) => 15,
            Refusal::Memory(_) => 16,
        }
    }

    /// Its name, as reports write it.
    pub fn name(self) -> &'static str
        ensures { result.now ≡ name_of self }
    {
        match self {
            Refusal::Header(_) => "Header",
            Refusal::Version(_) => "Version",
            Refusal::Role(_) => "Role",
            Refusal::Flags(_) => "Flags",
            Refusal::Kind(_) => "Kind",
            Refusal::Length(_) => "Length",
            Refusal::Nested(_) => "Nested",
            Refusal::NotOpen(_) => "NotOpen",
            Refusal::ReleaseUnrecorded(_) => "ReleaseUnrecorded",
            Refusal::Cut(_) => "Cut",
            Refusal::TooLarge(_) => "TooLarge",
            Refusal::OtherVersion(_) => "OtherVersion",
            Refusal::TooManyEarly(_) => "TooManyEarly",
            Refusal::TooLong(_) => "TooLong",
            Refusal::Read(_) => "Read",
            Refusal::Memory(_) => "Memory",
        }
    }

    /// The offset in the log of the byte at which its condition first applies, counted from 0.
    pub fn byte(self) -> u64
        ensures { result ≡ refusal_offset self }
    {
        match self {
            Refusal::Header(at)
            | Refusal::Version(at)
            | Refusal::Role(at)
            | Refusal::Flags(at)
            | Refusal::Kind(at)
            | Refusal::Length(at)
            | Refusal::Nested(at)
            | Refusal::NotOpen(at)
            | Refusal::ReleaseUnrecorded(at)
            | Refusal::Cut(at)
            | Refusal::TooLarge(at)
            | Refusal::OtherVersion(at)
            | Refusal::TooManyEarly(at)
            | Refusal::TooLong(at)
            | Refusal::Read(at)
            | Refusal::Memory(at) => at,
        }
    }
}

impl Refusal {
    /// This refusal, at another byte.
    pub fn moved_to(self, at: u64) -> Refusal
        ensures { result ≡ moved self at }
    {
        match self {
            Refusal::Header(_) => Refusal::Header(at),
            Refusal::Version(_) => Refusal::Version(at),
            Refusal::Role(_) => Refusal::Role(at),
            Refusal::Flags(_) => Refusal::Flags(at),
            Refusal::Kind(_) => Refusal::Kind(at),
            Refusal::Length(_) => Refusal::Length(at),
            Refusal::Nested(_) => Refusal::Nested(at),
            Refusal::NotOpen(_) => Refusal::NotOpen(at),
            Refusal::ReleaseUnrecorded(_) => Refusal::ReleaseUnrecorded(at),
            Refusal::Cut(_) => Refusal::Cut(at),
            Refusal::TooLarge(_) => Refusal::TooLarge(at),
            Refusal::OtherVersion(_) => Refusal::OtherVersion(at),
            Refusal::TooManyEarly(_) => Refusal::TooManyEarly(at),
            Refusal::TooLong(_) => Refusal::TooLong(at),
            Refusal::Read(_) => Refusal::Read(at),
            Refusal::Memory(_) => Refusal::Memory(at),
        }
    }
}

impl fmt::Display for Refusal {
    ghost output = { λ refusal. Some (refused_text refusal) };

    fn fmt<W: fmt::Write>(&self, f: &mut fmt::Formatter<W>) -> fmt::Result {
        let number = self.number();
        let name = self.name();
        let byte = self.byte();
        write!(f, "refused {number} {name} at {byte}")
    }
}
