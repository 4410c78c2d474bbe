//! Events as the bytes of a log of version 1.
ghost use Rattle.std.specs.Prelude.{◌≡◌, ◌∷◌};
ghost use Rattle.std.specs.Int.{w32, to_be_bytes};
ghost use Rattle.mq_trace.specs.Writing.{header_bytes};

use mq_log::Header;

/// The bytes of a log's header.
pub fn header_of(header: Header) -> [u8; 8]
    ensures { result ≡ header_bytes header }
{
    let server = u8::from(header.server);
    let releases = u8::from(header.releases);
    [b'M', b'Q', b'T', b'R', header.version, server, releases, 0]
}

/// A record's head: the byte of its kind, and how many bytes its body has.
pub fn head_of(kind: u8, length: u32) -> [u8; 5]
    ensures { result ≡ kind ∷ to_be_bytes w32 length }
{
    let [highest, high, low, lowest] = length.to_be_bytes();
    [kind, highest, high, low, lowest]
}
