//! Cutting a stream of bytes into packets.

ghost use Rattle.std.specs.Prelude.{◌≡◌, ◌↔◌, ℕ, true};
ghost use Rattle.mq_packet.specs.Stream.{is_lost};
ghost use Rattle.mq_packet.specs.Frames.{BeginsWithFrame, cut_of};

use super::frame::Cut;
use super::header::{FixedHeader, fixed_header};

/// The packet at the front of the bytes: `Frame` exactly if they begin with a whole one, `Lost`
/// exactly if the Remaining Length after the first byte is invalid, else `Need` (MQTT 5.0, sections
/// 2.1 and 1.5.5).
///
/// # Examples
///
/// ```
/// let puback = Cut::Frame {
///     first: 0x40,
///     body_start: 2,
///     body_end: 4,
/// };
/// assert_eq!(rt; cut(&[0x40, 2, 0, 10, 0xC0]), puback);
/// assert_eq!(rt; cut(&[0xC0]), Cut::Need);
/// ```
#[tactic(auto, using(crate::proofs::FrameLaws::lost_exactly))]
pub fn cut(bytes: &[u8]) -> Cut
    // A frame is returned exactly if the bytes begin with one.
    ensures frame { (first start end : ℕ) → (result ≡ Cut.Frame first start end) ↔ BeginsWithFrame bytes.now first start end }
    ensures lost { (result ≡ Cut.Lost) ↔ (is_lost bytes.now ≡ true) }
    ensures exact { result ≡ cut_of bytes.now }
{
    cut_front(bytes)
}

// Does the work of `cut`, whose other clauses follow from this contract.
#[tactic(auto, using(crate::proofs::StreamLaws::not_empty), unfolding(crate::specs::Frames::cut_of))]
fn cut_front(bytes: &[u8]) -> Cut
    ensures { result ≡ cut_of bytes.now }
{
    match fixed_header(bytes) {
        FixedHeader::Short => Cut::Need,
        FixedHeader::Lost => Cut::Lost,
        FixedHeader::Whole { length, size } => {
            if bytes.len() < size {
                return Cut::Need;
            }
            Cut::Frame {
                first: bytes[0],
                body_start: length,
                body_end: size,
            }
        }
    }
}
