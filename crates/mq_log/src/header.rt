//! The log's header: eight bytes.

ghost use Rattle.std.specs.Prelude.{◌≡◌, ◌<◌, ◌==◌, if◌then◌else◌};
ghost use Rattle.mq_log.specs.Framing.{is_version, head_length, longest_body};
ghost use Rattle.mq_log.specs.Refusals.{header_refusal};

use super::refusal::Refusal;

/// What a log's header says.
#[derive(Clone, Copy, Debug, PartialEq, Eq)]
pub struct Header {
    /// The version of the log's layout: 1 or 2.
    pub version: u8,
    /// Whether the tested end is a server.
    pub server: bool,
    /// Whether the log records the releases of QoS 2 messages.
    pub releases: bool,
}

/// The first four bytes of a log.
pub const MAGIC: [u8; 4] = *b"MQTR";

/// The length of a record's head without a moment, in bytes: its kind, and the length of its body.
pub const LENGTH_END: usize = 5;

/// The length of a record's head in version 2: its kind, the length of its body, and its moment.
pub const MOMENT_END: usize = 13;

/// The header's length, in bytes.
pub const HEADER_LENGTH: u64 = 8;

/// The offset of the version.
pub const VERSION_AT: u64 = 4;

/// The offset of the byte that names the tested end's role.
const ROLE_AT: u64 = 5;

/// The offset of the header's flags.
const FLAGS_AT: u64 = 6;

/// The refusal of a byte of the header at this offset, if the byte is invalid there.
#[tactic(auto, unfolding(crate::specs::Refusals::header_refusal))]
pub fn header_refusal(at: u64, byte: u8) -> Option<Refusal>
    requires { at < 8 }
    ensures { result ≡ header_refusal at byte }
{
    match at {
        0 => refused_unless(byte == MAGIC[0], Refusal::Header(at)),
        1 => refused_unless(byte == MAGIC[1], Refusal::Header(at)),
        2 => refused_unless(byte == MAGIC[2], Refusal::Header(at)),
        3 => refused_unless(byte == MAGIC[3], Refusal::Header(at)),
        4 => refused_unless(is_version(byte), Refusal::Version(at)),
        5 => refused_unless(byte < 2, Refusal::Role(at)),
        6 => refused_unless(byte < 2, Refusal::Flags(at)),
        _ => refused_unless(byte == 0, Refusal::Flags(at)),
    }
}

// Whether there is such a version of the layout.
fn is_version(byte: u8) -> bool
    ensures { result ≡ is_version byte }
{
    match byte {
        1 | 2 => true,
        _ => false,
    }
}

/// Whether the records of a log of this version have moments.
#[inline(always)]
pub fn has_moments(version: u8) -> bool
    ensures { result ≡ version == 2 }
{
    version == 2
}

/// The length of a record's head in a log of this version, in bytes.
#[inline(always)]
#[tactic(auto, unfolding(crate::specs::Framing::head_length))]
pub fn head_length(version: u8) -> usize
    ensures { result ≡ head_length version }
{
    if has_moments(version) {
        MOMENT_END
    } else {
        LENGTH_END
    }
}

/// The longest body that a SENT or RECV record may have in a log of this version, in bytes.
#[inline(always)]
#[tactic(auto, unfolding(crate::specs::Framing::longest_body))]
pub fn longest_body(version: u8) -> u32
    ensures { result ≡ longest_body version }
{
    if has_moments(version) {
        16_777_216
    } else {
        1_048_576
    }
}

// The refusal of a byte, unless it may be where it is.
fn refused_unless(fits: bool, refusal: Refusal) -> Option<Refusal>
    ensures { result ≡ (if fits then None else Some refusal) }
{
    if fits { None } else { Some(refusal) }
}

/// The header, as known after a byte of it at this offset: byte 4 is the version, byte 5 names the
/// tested end's role, and bit 0 of byte 6 says whether releases are recorded.
pub fn header_after(header: Header, at: u64, byte: u8) -> Header
    ensures version { result.version ≡ (if at == 4 then byte else header.version) }
    ensures server { result.server ≡ (if at == 5 then byte == 1 else header.server) }
    ensures releases { result.releases ≡ (if at == 6 then byte == 1 else header.releases) }
{
    match at {
        VERSION_AT => Header {
            version: byte,
            server: header.server,
            releases: header.releases,
        },
        ROLE_AT => Header {
            version: header.version,
            server: byte == 1,
            releases: header.releases,
        },
        FLAGS_AT => Header {
            version: header.version,
            server: header.server,
            releases: byte == 1,
        },
        _ => header,
    }
}
