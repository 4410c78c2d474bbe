//! Reading fields from the front of a slice.

ghost use Rattle.std.specs.Prelude.{◌≡◌, ◌+◌, ◌<◌, ◌≤◌, ◌^◌, ◌==◌, ◌↔◌, [], true, Some, None, Ok, IsTrue, IfOk, IfSome, MatchOption, length};
ghost use Rattle.mq_wire.specs.Left.{past, placed, Took, Gives};
ghost use Rattle.mq_wire.specs.Fields.{byte_at, two_bytes_at, four_bytes_at, varint_at, text_of, text_at, binary_at, pair_at};
ghost use Rattle.mq_wire.specs.Plain.{is_plain, plain_text_at};

use crate::fault::{Reason, WireFault};
use crate::limits::contains_nul;
use crate::plain::plain_str;
use std::marker::Model;

/// Reads fields from the front of a slice of bytes, and counts how many bytes it has read.
///
/// A read that fails doesn't move the cursor, so each field is read whole or not at all.
/// No read copies or allocates.
#[derive(Debug, Drop)]
pub struct Cursor<'a> {
    rest: &'a [u8],
    at: usize,
}

impl<'a> Model for Cursor<'a> {
    ghost use Rattle.std.specs.Prelude.{◌+◌, ◌<◌, ◌^◌, length};
    ghost use Rattle.mq_wire.specs.Left.{Left};

    ghost Value = { Left };

    ghost view = { λ c. record { at = c.at; rest = c.rest.now } };

    ghost invariant = { λ c. c.at + length c.rest.now < 2 ^ 63 };
}

impl<'a> Cursor<'a> {
    /// A cursor at the front of the bytes, with offsets that count from 0.
    pub fn new(bytes: &'a [u8]) -> Cursor<'a>
        ensures { result ≡ record { at = 0; rest = bytes.now } }
    {
        Cursor { rest: bytes, at: 0 }
    }

    /// A cursor at the front of the bytes, the first of which has the offset `at`.
    pub fn starting_at(bytes: &'a [u8], at: usize) -> Cursor<'a>
        requires { at + length bytes.now < 2 ^ 63 }
        ensures { result ≡ record { at = at; rest = bytes.now } }
    {
        Cursor { rest: bytes, at }
    }

    /// The offset of the next byte.
    pub fn at(&self) -> usize
        ensures place { result ≡ self.now.at }
        ensures bound { result + length self.now.rest < 2 ^ 63 }
    {
        self.at
    }

    /// The bytes that are left.
    pub fn rest(self) -> &'a [u8]
        ensures { result.now ≡ self.entry.rest }
    {
        self.rest
    }

    /// Whether no byte is left.
    pub fn is_empty(&self) -> bool
        ensures { IsTrue result ↔ (self.now.rest ≡ []) }
    {
        self.rest.is_empty()
    }

    // Moves past the next `len` bytes.
    fn skip(&mut self, len: usize)
        requires { len ≤ length self.old.rest }
        ensures { self.new ≡ past self.old len }
    {
        self.rest = &self.rest[len..];
        self.at += len;
    }

    // A fault for this reason, at the offset of the next byte.
    fn fault(&self, reason: Reason) -> WireFault
        ensures { result ≡ record { at = self.now.at; reason = reason } }
    {
        WireFault {
            at: self.at,
            reason,
        }
    }

    /// A byte.
    ///
    /// Fails with `Short` if no byte is left.
    pub fn u8(&mut self) -> Result<u8, WireFault>
        ensures { Took (λ n. n) result self.old (placed self.old (byte_at self.old.rest)) self.new }
    {
        match *self.rest {
            [byte, ..] => {
                self.skip(1);
                Ok(byte)
            }
            [] => Err(self.fault(Reason::Short)),
        }
    }

    /// A Two Byte Integer (MQTT 5.0, 1.5.2).
    ///
    /// Fails with `Short` if fewer than two bytes are left.
    pub fn u16(&mut self) -> Result<u16, WireFault>
        ensures exact { Took (λ n. n) result self.old (placed self.old (two_bytes_at self.old.rest)) self.new }
        ensures bound { IfOk result (λ n. n < 2 ^ 16) }
    {
        match *self.rest {
            [a, b, ..] => {
                self.skip(2);
                Ok(u16::from_be_bytes([a, b]))
            }
            _ => Err(self.fault(Reason::Short)),
        }
    }

    /// A Four Byte Integer (MQTT 5.0, 1.5.3).
    ///
    /// Fails with `Short` if fewer than four bytes are left.
    pub fn u32(&mut self) -> Result<u32, WireFault>
        ensures exact { Took (λ n. n) result self.old (placed self.old (four_bytes_at self.old.rest)) self.new }
        ensures bound { IfOk result (λ n. n < 2 ^ 32) }
    {
        match *self.rest {
            [a, b, c, d, ..] => {
                self.skip(4);
                Ok(u32::from_be_bytes([a, b, c, d]))
            }
            _ => Err(self.fault(Reason::Short)),
        }
    }

    /// A Variable Byte Integer, from 0 to 268,435,455 (MQTT 5.0, 1.5.5).
    ///
    /// Fails with `Short` if the bytes end before the number does, and with `Overlong` if it has
    /// more bytes than it needs, or a fourth byte with bit 7.
    #[inline(always)]
    #[tactic(auto, unfolding(crate::specs::Fields::varint_at))]
    pub fn varint(&mut self) -> Result<u32, WireFault>
        ensures exact { Took (λ n. n) result self.old (placed self.old (varint_at self.old.rest)) self.new }
        ensures bound { IfOk result (λ n. n < 2 ^ 28) }
    {
        match *self.rest {
            [a @ 0..128, ..] => {
                self.skip(1);
                Ok(u32::from(a))
            }
            _ => self.any_varint(),
        }
    }

    // The same for any length. It is a function of its own, so that the call for one byte, the
    // usual case, is inlined.
    #[inline(never)]
    #[tactic(auto, unfolding(crate::specs::Fields::varint_at))]
    fn any_varint(&mut self) -> Result<u32, WireFault>
        ensures exact { Took (λ n. n) result self.old (placed self.old (varint_at self.old.rest)) self.new }
        ensures bound { IfOk result (λ n. n < 2 ^ 28) }
    {
        let (number, last, len) = match *self.rest {
            [a @ 0..128, ..] => {
                self.skip(1);
                return Ok(u32::from(a));
            }
            [a, b @ 0..128, ..] => (u32::from(a - 128) + 128 * u32::from(b), b, 2),
            [a, b, c @ 0..128, ..] => (
                u32::from(a - 128) + 128 * u32::from(b - 128) + 16_384 * u32::from(c),
                c,
                3,
            ),
            [a, b, c, d @ 0..128, ..] => (
                u32::from(a - 128)
                    + 128 * u32::from(b - 128)
                    + 16_384 * u32::from(c - 128)
                    + 2_097_152 * u32::from(d),
                d,
                4,
            ),
            [_, _, _, _, ..] => return Err(self.fault(Reason::Overlong)),
            _ => return Err(self.fault(Reason::Short)),
        };
        if last == 0 {
            return Err(self.fault(Reason::Overlong));
        }
        self.skip(len);
        Ok(number)
    }

    /// Binary Data: at most 65,535 bytes after their length (MQTT 5.0, 1.5.6).
    ///
    /// Fails with `Short` if the bytes end before the field does.
    #[tactic(auto, unfolding(crate::specs::Fields::binary_at))]
    pub fn binary(&mut self) -> Result<&'a [u8], WireFault>
        ensures exact { Took (λ bytes. bytes.now) result self.old (placed self.old (binary_at self.old.rest)) self.new }
        ensures bound { IfOk result (λ bytes. length bytes.now < 2 ^ 16) }
    {
        let [high, low, bytes @ ..] = self.rest else {
            return Err(self.fault(Reason::Short));
        };
        let len = usize::from(u16::from_be_bytes([*high, *low]));
        if bytes.len() < len {
            return Err(self.fault(Reason::Short));
        }
        self.skip(2 + len);
        Ok(&bytes[..len])
    }

    /// A UTF-8 Encoded String: at most 65,535 bytes after their length (MQTT 5.0, 1.5.4).
    ///
    /// Fails with `Short` if the bytes end before the field does, else with `NotUtf8` if they
    /// aren't well-formed UTF-8, else with `Nul` if the character U+0000 is among them.
    #[tactic(auto, unfolding(crate::specs::Fields::text_at, crate::specs::Fields::binary_at))]
    pub fn text(&mut self) -> Result<&'a str, WireFault>
        ensures exact { Took (λ text. text.now) result self.old (placed self.old (text_at self.old.rest)) self.new }
        ensures bound { IfOk result (λ text. length text.now < 2 ^ 16) }
    {
        let [high, low, bytes @ ..] = self.rest else {
            return Err(self.fault(Reason::Short));
        };
        let len = usize::from(u16::from_be_bytes([*high, *low]));
        if bytes.len() < len {
            return Err(self.fault(Reason::Short));
        }
        match checked_text(&bytes[..len]) {
            Ok(text) => {
                self.skip(2 + len);
                Ok(text)
            }
            Err(reason) => Err(self.fault(reason)),
        }
    }

    /// A UTF-8 Encoded String of plain bytes: ASCII characters other than U+0000, `#` and `+` (MQTT
    /// 5.0, 1.5.4 and 4.7.1). It is the text that [`Cursor::text`] reads there, and it has no
    /// wildcard.
    ///
    /// `None` if the bytes end before the field does, or if another byte is among them. The cursor
    /// has then not moved.
    #[inline(always)]
    pub fn plain_text(&mut self) -> Option<&'a str>
        ensures exact { MatchOption result
            ((plain_text_at self.old.rest ≡ None) × (self.new ≡ self.old))
            (λ text. (plain_text_at self.old.rest ≡ Some (text.now, 2 + length text.now)) × (self.new ≡ past self.old (2 + length text.now))) }
        ensures text { IfSome result (λ text. placed self.old (text_at self.old.rest) ≡ Ok (text.now, self.new)) }
        ensures plain { IfSome result (λ text. is_plain text.now ≡ true) }
    {
        self.take_plain()
    }

    // Does the work of `plain_text`, whose clause `text` follows from this contract.
    #[inline(always)]
    #[tactic(auto, unfolding(crate::specs::Fields::binary_at))]
    fn take_plain(&mut self) -> Option<&'a str>
        ensures exact { MatchOption result
            ((plain_text_at self.old.rest ≡ None) × (self.new ≡ self.old))
            (λ text. (plain_text_at self.old.rest ≡ Some (text.now, 2 + length text.now)) × (self.new ≡ past self.old (2 + length text.now))) }
        ensures plain { IfSome result (λ text. is_plain text.now ≡ true) }
    {
        let [high, low, bytes @ ..] = self.rest else {
            return None;
        };
        let len = usize::from(u16::from_be_bytes([*high, *low]));
        if bytes.len() < len {
            return None;
        }
        let text = plain_str(&bytes[..len])?;
        self.skip(2 + len);
        Some(text)
    }

    /// A UTF-8 String Pair: a name and a value (MQTT 5.0, 1.5.7).
    ///
    /// Fails as [`Cursor::text`] does for the name, else as it does for the value; the fault's
    /// offset is that of the pair.
    #[tactic(auto, unfolding(crate::specs::Fields::pair_at))]
    pub fn pair(&mut self) -> Result<(&'a str, &'a str), WireFault>
        ensures exact { Took (λ pair. (pair.0.now, pair.1.now)) result self.old (placed self.old (pair_at self.old.rest)) self.new }
        ensures bound { IfOk result (λ pair. (length pair.0.now < 2 ^ 16) × (length pair.1.now < 2 ^ 16)) }
    {
        let mut ahead = Cursor {
            rest: self.rest,
            at: self.at,
        };
        let name = ahead.text()?;
        match ahead.text() {
            Ok(value) => {
                *self = ahead;
                Ok((name, value))
            }
            Err(fault) => Err(self.fault(fault.reason)),
        }
    }
}

// The bytes as a text, if they are valid.
#[tactic(auto, using(crate::proofs::Texts::not_utf8, crate::proofs::Texts::with_nul, crate::proofs::Texts::is_text))]
fn checked_text(bytes: &[u8]) -> Result<&str, Reason>
    ensures exact { Gives (λ text. text.now) result (text_of bytes.now) }
    ensures same { IfOk result (λ text. text.now ≡ bytes.now) }
{
    let Ok(text) = simdutf8::basic::from_utf8(bytes) else {
        return Err(Reason::NotUtf8);
    };
    if contains_nul(text) {
        return Err(Reason::Nul);
    }
    Ok(text)
}
