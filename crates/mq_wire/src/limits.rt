//! What can be spelled, and how many bytes it takes.

ghost use Rattle.std.specs.Prelude.{◌≡◌, ◌≤◌, length};
ghost use Rattle.mq_wire.specs.Spellings.{varint_spelling, has_nul};

/// The most bytes that a UTF-8 Encoded String or Binary Data can have (MQTT 5.0, 1.5.4 and 1.5.6).
pub const MAX_LEN: usize = 65_535;

/// The largest Variable Byte Integer (MQTT 5.0, 1.5.5).
pub const MAX_VARINT: u32 = 268_435_455;

/// Whether the text has the character U+0000, which no UTF-8 Encoded String may have (MQTT 5.0,
/// 1.5.4).
#[inline(always)]
pub fn contains_nul(text: &str) -> bool
    ensures { result ≡ has_nul text.now }
{
    text.as_bytes().contains(&0)
}

/// How many bytes spell a Variable Byte Integer (MQTT 5.0, 1.5.5).
#[inline(always)]
#[tactic(auto, unfolding(crate::specs::Spellings::varint_spelling))]
pub fn varint_len(number: u32) -> usize
    ensures len { result ≡ length (varint_spelling number) }
    ensures bound { result ≤ 4 }
{
    match number {
        0..128 => 1,
        128..16_384 => 2,
        16_384..2_097_152 => 3,
        _ => 4,
    }
}
