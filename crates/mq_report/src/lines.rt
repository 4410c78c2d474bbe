//! A buffer of lines that are written together.
ghost use Rattle.std.specs.Prelude.{◌≡◌, ◌+◌, ◌<◌, ◌≤◌, nat_le, [], ◌++◌, IfErr, OnOk, length, decimal};

use std::fmt;
use std::marker::Model;

/// How many bytes can wait.
const ROOM: usize = 8192;

/// A buffer of lines that wait to be written.
#[derive(Drop)]
pub struct Lines {
    bytes: [u8; 8192],
    len: usize,
}

impl Model for Lines {
    ghost use Rattle.std.specs.Prelude.{ℕ, ◌≤◌, List, take};

    ghost Value = { List ℕ };

    ghost view = { λ l. take l.len l.bytes };

    ghost invariant = { λ l. l.len ≤ 8192 };
}

impl Lines {
    /// An empty buffer.
    pub fn new() -> Self
        ensures { result ≡ [] }
    {
        Lines {
            bytes: [0; 8192],
            len: 0,
        }
    }

    /// Whether there is room for `count` more bytes.
    #[inline(always)]
    pub fn has_room(&self, count: usize) -> bool
        ensures { result ≡ nat_le (length self.now + count) 8192 }
    {
        count <= ROOM - self.len
    }

    /// The bytes that wait.
    #[inline(always)]
    pub fn as_bytes(&self) -> &[u8]
        ensures { result.now ≡ self.now }
    {
        &self.bytes[..self.len]
    }

    /// Drops what waits.
    pub fn clear(&mut self)
        ensures { self.new ≡ [] }
    {
        self.len = 0;
    }

    /// Appends a text to what waits.
    ///
    /// # Errors
    ///
    /// If there is no room for it. Nothing is then changed.
    #[inline(always)]
    pub fn put(&mut self, text: &str) -> fmt::Result
        ensures puts { OnOk result (self.new ≡ self.old ++ text.now) }
        ensures full { IfErr result (λ _. (self.new ≡ self.old) × (8192 < length self.old + length text.now)) }
    {
        self.put_bytes(text.as_bytes())
    }

    /// Appends bytes to what waits.
    ///
    /// # Errors
    ///
    /// If there is no room for them. Nothing is then changed.
    #[inline(always)]
    pub fn put_bytes(&mut self, bytes: &[u8]) -> fmt::Result
        ensures puts { OnOk result (self.new ≡ self.old ++ bytes.now) }
        ensures full { IfErr result (λ _. (self.new ≡ self.old) × (8192 < length self.old + length bytes.now)) }
    {
        if bytes.len() > ROOM - self.len {
            return Err(fmt::Error);
        }
        let end = self.len + bytes.len();
        self.bytes[self.len..end].copy_from_slice(bytes);
        self.len = end;
        Ok(())
    }

    /// Appends a number in decimal digits to what waits.
    ///
    /// # Errors
    ///
    /// If there is no room for it. Nothing is then changed.
    #[inline(always)]
    pub fn put_number(&mut self, number: u32) -> fmt::Result
        ensures puts { OnOk result (self.new ≡ self.old ++ decimal number) }
        ensures full { IfErr result (λ _. (self.new ≡ self.old) × (8192 < length self.old + length (decimal number))) }
        ensures short { length (decimal number) ≤ 10 }
    {
        if number < 10 {
            self.put_digit(number)
        } else {
            self.put_digits(number)
        }
    }

    // Appends a number of one digit.
    #[inline(always)]
    #[tactic(auto, using(crate::proofs::DigitLaws::digit_alone, crate::proofs::DigitLaws::one_digit))]
    fn put_digit(&mut self, number: u32) -> fmt::Result
        requires { number < 10 }
        ensures puts { OnOk result (self.new ≡ self.old ++ decimal number) }
        ensures full { IfErr result (λ _. (self.new ≡ self.old) × (8192 < length self.old + length (decimal number))) }
        ensures short { length (decimal number) ≤ 10 }
    {
        self.put_bytes(&[b'0' + number as u8])
    }

    // Appends the digits of any number.
    #[inline(never)]
    fn put_digits(&mut self, number: u32) -> fmt::Result
        ensures puts { OnOk result (self.new ≡ self.old ++ decimal number) }
        ensures full { IfErr result (λ _. (self.new ≡ self.old) × (8192 < length self.old + length (decimal number))) }
        ensures short { length (decimal number) ≤ 10 }
    {
        let count = digit_count(number);
        if count > ROOM - self.len {
            return Err(fmt::Error);
        }
        let end = self.len + count;
        write_digits(&mut self.bytes[self.len..end], number);
        self.len = end;
        Ok(())
    }

    /// Appends a number that may have more than 32 bits in decimal digits to what waits.
    ///
    /// # Errors
    ///
    /// If there is no room for it. Nothing is then changed.
    #[inline(never)]
    pub fn put_long_number(&mut self, number: u64) -> fmt::Result
        ensures puts { OnOk result (self.new ≡ self.old ++ decimal number) }
        ensures full { IfErr result (λ _. (self.new ≡ self.old) × (8192 < length self.old + length (decimal number))) }
        ensures short { length (decimal number) ≤ 20 }
    {
        let count = long_digit_count(number);
        if count > ROOM - self.len {
            return Err(fmt::Error);
        }
        let end = self.len + count;
        write_long_digits(&mut self.bytes[self.len..end], number);
        self.len = end;
        Ok(())
    }
}

impl fmt::Write for Lines {
    ghost write_str_gives = { λ old text new. new ≡ old ++ text };

    fn write_str(&mut self, text: &str) -> fmt::Result {
        self.put(text)
    }
}

// How many decimal digits a number has.
fn digit_count(number: u32) -> usize
    ensures count { result ≡ length (decimal number) }
    ensures short { result ≤ 10 }
{
    match number {
        0..10 => 1,
        10..100 => 2,
        100..1_000 => 3,
        1_000..10_000 => 4,
        10_000..100_000 => 5,
        100_000..1_000_000 => 6,
        1_000_000..10_000_000 => 7,
        10_000_000..100_000_000 => 8,
        100_000_000..1_000_000_000 => 9,
        _ => 10,
    }
}

// Fills the bytes with a number's decimal digits, from the last ones on. Two digits at a time take
// half the divisions.
fn write_digits(digits: &mut [u8], number: u32)
    requires { length digits.old ≡ length (decimal number) }
    ensures { digits.new ≡ decimal number }
{
    let mut at = digits.len();
    let mut rest = number;
    while rest >= 100 {
        let pair = rest % 100;
        digits[at - 1] = b'0' + (pair % 10) as u8;
        at -= 2;
        digits[at] = b'0' + (pair / 10) as u8;
        rest /= 100;
    }
    while rest >= 10 {
        at -= 1;
        digits[at] = b'0' + (rest % 10) as u8;
        rest /= 10;
    }
    digits[at - 1] = b'0' + rest as u8;
}

// How many decimal digits a number has that may be above 32 bits.
fn long_digit_count(number: u64) -> usize
    ensures count { result ≡ length (decimal number) }
    ensures short { result ≤ 20 }
{
    match number {
        0..1_000_000_000 => digit_count(number as u32),
        1_000_000_000..10_000_000_000 => 10,
        10_000_000_000..100_000_000_000 => 11,
        100_000_000_000..1_000_000_000_000 => 12,
        1_000_000_000_000..10_000_000_000_000 => 13,
        10_000_000_000_000..100_000_000_000_000 => 14,
        100_000_000_000_000..1_000_000_000_000_000 => 15,
        1_000_000_000_000_000..10_000_000_000_000_000 => 16,
        10_000_000_000_000_000..100_000_000_000_000_000 => 17,
        100_000_000_000_000_000..1_000_000_000_000_000_000 => 18,
        1_000_000_000_000_000_000..10_000_000_000_000_000_000 => 19,
        _ => 20,
    }
}

// Fills the bytes with the decimal digits of a number that may be above 32 bits, one by one.
fn write_long_digits(digits: &mut [u8], number: u64)
    requires { length digits.old ≡ length (decimal number) }
    ensures { digits.new ≡ decimal number }
{
    let mut at = digits.len();
    let mut rest = number;
    while rest >= 10 {
        at -= 1;
        digits[at] = b'0' + (rest % 10) as u8;
        rest /= 10;
    }
    digits[at - 1] = b'0' + rest as u8;
}
