//! Texts of plain bytes, which are validated in one pass.

ghost use Rattle.std.specs.Prelude.{◌≡◌, ◌≤◌, ◌*◌, true, false, length, MatchOption};
ghost use Rattle.mq_wire.specs.Plain.{is_plain, is_plain_byte};

use std::str;

/// The bytes as a text, if each of them is plain: an ASCII character other than U+0000, `#` and `+`
/// (MQTT 5.0, 1.5.4 and 4.7.1).
#[inline(always)]
#[tactic(auto, using(crate::proofs::PlainLaws::plain_utf8))]
pub fn plain_str(bytes: &[u8]) -> Option<&str>
    ensures { MatchOption result (is_plain bytes.now ≡ false) (λ text. (is_plain bytes.now ≡ true) × (text.now ≡ bytes.now)) }
{
    if !is_plain(bytes) {
        return None;
    }
    // What is ASCII is UTF-8.
    Some(unsafe { str::from_utf8_unchecked(bytes) })
}

// Whether each byte is plain. Most Topic Names have at most 32 bytes, and are checked in two runs
// of a fixed length, which may overlap: such a loop compares many bytes at once.
#[inline(never)]
fn is_plain(bytes: &[u8]) -> bool
    ensures { result ≡ is_plain bytes.now }
{
    match bytes.len() {
        8..=16 => are_ends_plain(bytes, 8),
        17..=32 => are_ends_plain(bytes, 16),
        _ => is_run_plain(bytes),
    }
}

// Whether the first `count` bytes and the last `count` are plain. Together they are all bytes.
#[inline(always)]
#[tactic(auto, using(crate::proofs::PlainLaws::ends_cover))]
fn are_ends_plain(bytes: &[u8], count: usize) -> bool
    requires within { count ≤ length bytes.now }
    requires cover { length bytes.now ≤ 2 * count }
    ensures { result ≡ is_plain bytes.now }
{
    let front = is_run_plain(&bytes[..count]);
    let back = is_run_plain(&bytes[bytes.len() - count..]);
    front & back
}

// Whether each byte is plain, byte by byte, without an early exit from the loop.
#[inline(always)]
#[tactic(auto, using(crate::proofs::PlainLaws::plain_more))]
fn is_run_plain(bytes: &[u8]) -> bool
    ensures { result ≡ is_plain bytes.now }
{
    let mut is_plain = true;
    for byte in bytes {
        is_plain &= is_plain_byte(*byte);
    }
    is_plain
}

// Whether it is an ASCII character other than U+0000, `#` and `+`, found out without a branch.
#[inline(always)]
fn is_plain_byte(byte: u8) -> bool
    ensures { result ≡ is_plain_byte byte }
{
    (byte < 128) & (byte != 0) & (byte != b'#') & (byte != b'+')
}
