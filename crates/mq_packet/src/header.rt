//! The fixed header of a packet (MQTT 5.0, section 2.1).

ghost use Rattle.std.specs.Prelude.{◌≡◌, ◌+◌, ◌≤◌, length};
ghost use Rattle.mq_wire.specs.Spellings.{varint_spelling};
ghost use Rattle.mq_packet.specs.Stream.{fixed_header_of, HasBounds};

use mq_wire::{Cursor, Reason, varint_len};

/// What the bytes at the front of a stream of packets say of the first packet's fixed header (MQTT
/// 5.0, section 2.1).
#[derive(Clone, Copy, Debug, PartialEq, Eq)]
pub enum FixedHeader {
    /// The bytes end before the Remaining Length does.
    Short,
    /// The Remaining Length is invalid (MQTT 5.0, section 1.5.5): the rest of the stream can't be
    /// parsed.
    Lost,
    /// The fixed header is whole.
    Whole {
        /// How many bytes the fixed header has: 2 to 5.
        length: usize,
        /// How many bytes the whole packet has: 2 to 268,435,460.
        size: usize,
    },
}

/// The fixed header at the front of the bytes: it is `Short` if the Remaining Length isn't complete
/// yet, and `Lost` if no further bytes could make it a Variable Byte Integer (MQTT 5.0, section
/// 2.1.4).
///
/// # Examples
///
/// ```
/// let whole = FixedHeader::Whole { length: 2, size: 4 };
/// assert_eq!(rt; fixed_header(&[0x40, 2]), whole);
/// assert_eq!(rt; fixed_header(&[0x40]), FixedHeader::Short);
/// ```
#[inline(always)]
#[tactic(auto, unfolding(crate::specs::Stream::fixed_header_of, mq_wire::specs::Fields::varint_at))]
pub fn fixed_header(bytes: &[u8]) -> FixedHeader
    ensures exact { result ≡ fixed_header_of bytes.now }
    ensures bounds { HasBounds result }
{
    match *bytes {
        [_, remaining @ 0..128, ..] => FixedHeader::Whole {
            length: 2,
            size: 2 + usize::from(remaining),
        },
        _ => any_fixed_header(bytes),
    }
}

// The same for any Remaining Length. It is a function of its own, so that the call for one byte,
// the usual case, is inlined.
#[inline(never)]
#[tactic(auto, using(crate::proofs::Lengths::number_length), unfolding(crate::specs::Stream::fixed_header_of))]
fn any_fixed_header(bytes: &[u8]) -> FixedHeader
    ensures exact { result ≡ fixed_header_of bytes.now }
    ensures bounds { HasBounds result }
{
    let [_, rest @ ..] = bytes else {
        return FixedHeader::Short;
    };
    let mut cursor = Cursor::new(rest);
    match cursor.varint() {
        Ok(remaining) => {
            let length = 1 + cursor.at();
            FixedHeader::Whole {
                length,
                size: length + remaining as usize,
            }
        }
        Err(fault) => match fault.reason {
            Reason::Overlong => FixedHeader::Lost,
            _ => FixedHeader::Short,
        },
    }
}

/// How many bytes the fixed header of a packet with this Remaining Length has: its first byte, and
/// the shortest spelling of the number (MQTT 5.0, sections 1.5.5 and 2.1.4).
#[inline(always)]
pub fn header_len(remaining: u32) -> usize
    ensures len { result ≡ 1 + length (varint_spelling remaining) }
    ensures bound { result ≤ 5 }
{
    1 + varint_len(remaining)
}
