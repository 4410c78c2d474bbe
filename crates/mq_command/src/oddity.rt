//! What is odd in a text that spells no bytes.
ghost use Rattle.std.specs.Prelude.{◌≡◌, ◌<◌, ◌++◌, ◌^◌, ◌/◌, ◌%◌, ◌∷◌, [], codes, decimal, IfOk, OnOk, IsErr, Some, true, string_bytes};
ghost use Rattle.std.specs.Fmt.{digit_glyph};
ghost use Rattle.hex.specs.Hex.{is_hex_digit};
ghost use Rattle.mq_command.specs.Digits.{bytes_of, character_text, is_printed, oddity_in, oddity_line, oddity_of, oddity_of_last};

use crate::digits::{is_between, is_prefix};
use std::alloc::{AllocError, Global};
use std::fmt::Write as _;

/// What is odd in a text that spells no bytes.
#[derive(Clone, Copy)]
pub enum Oddity {
    /// The character at this place, counted from 1, stands where a digit belongs, and is none; and
    /// its first byte.
    NoDigit(usize, u8),
    /// The second digit of a byte is missing after the one at this place; and that.
    Missing(usize, u8),
}

/// What is odd first in a text that spells no bytes.
pub fn first_oddity(text: &[u8]) -> Oddity
    requires { IsErr (bytes_of text.now) }
    ensures { oddity_in text.now ≡ Some result }
{
    match oddity_in(text) {
        Some(odd) => odd,
        None => unreachable!(),
    }
}

// What is odd first in a text, if anything is.
#[tactic(auto, using(crate::proofs::DigitLaws::between_passes))]
fn oddity_in(text: &[u8]) -> Option<Oddity>
    ensures { result ≡ oddity_in text.now }
{
    let mut place = 1;
    let mut rest = text;
    while let Some((first, after)) = rest.split_first() {
        if is_between(*first) {
            place += 1;
            rest = after;
            continue;
        }
        let Some((second, later)) = after.split_first() else {
            return Some(oddity_of_last(place, *first));
        };
        if is_prefix(*first, *second) {
            place += 2;
            rest = later;
            continue;
        }
        if let Some(odd) = oddity_of(place, *first, *second) {
            return Some(odd);
        }
        place += 2;
        rest = later;
    }
    None
}

// What is odd in the two characters of a byte, the first of which has this place.
fn oddity_of(place: usize, first: u8, second: u8) -> Option<Oddity>
    requires { place < 2 ^ 63 }
    ensures { result ≡ oddity_of place first second }
{
    if !is_digit(first) {
        return Some(Oddity::NoDigit(place, first));
    }
    if !is_digit(second) {
        return Some(Oddity::NoDigit(place + 1, second));
    }
    None
}

// What is odd in the last character, which stands alone.
fn oddity_of_last(place: usize, first: u8) -> Oddity
    ensures { result ≡ oddity_of_last place first }
{
    if is_digit(first) {
        Oddity::Missing(place, first)
    } else {
        Oddity::NoDigit(place, first)
    }
}

// Whether a character is a hexadecimal digit, small or capital.
fn is_digit(code: u8) -> bool
    ensures { result ≡ is_hex_digit code }
{
    matches!(code, b'0'..=b'9' | b'A'..=b'F' | b'a'..=b'f')
}

impl Oddity {
    /// The line that says what is odd.
    pub fn line(self, alloc: Global) -> Result<String, AllocError>
        ensures { IfOk result (λ line. string_bytes line ≡ oddity_line self) }
    {
        match self {
            Oddity::NoDigit(place, code) => line_on(
                alloc,
                "mqjudge: character ",
                place,
                code,
                ", is no hexadecimal digit\n",
            ),
            Oddity::Missing(place, code) => line_on(
                alloc,
                "mqjudge: a digit is missing after character ",
                place,
                code,
                "\n",
            ),
        }
    }
}

// A line on a character at its place, that begins and ends with these texts.
fn line_on(
    alloc: Global,
    start: &str,
    place: usize,
    code: u8,
    end: &str,
) -> Result<String, AllocError>
    ensures { IfOk result (λ line. string_bytes line
        ≡ start.now ++ (decimal place ++ (codes ", " ++ (character_text code ++ end.now)))) }
{
    let mut line = String::new(alloc);
    line.push_str(start)?;
    put_character(&mut line, place, code)?;
    line.push_str(end)?;
    Ok(line)
}

// Appends a character's place, and the character.
fn put_character(line: &mut String, place: usize, code: u8) -> Result<(), AllocError>
    ensures { OnOk result (string_bytes line.new ≡ string_bytes line.old ++ (decimal place ++ (codes ", " ++ character_text code))) }
{
    write!(line, "{place}, ")?;
    put_code(line, code)
}

// Appends a character: itself in backquotes if it is printed as it is, else its first byte.
fn put_code(line: &mut String, code: u8) -> Result<(), AllocError>
    ensures { OnOk result (string_bytes line.new ≡ string_bytes line.old ++ character_text code) }
{
    if is_printed(code) {
        put_printed(line, code)
    } else {
        put_byte(line, code)
    }
}

// Whether a character is printed as it is: one of ASCII that isn't a control character.
fn is_printed(code: u8) -> bool
    ensures { result ≡ is_printed code }
{
    31 < code && code < 127
}

// Appends a character of ASCII in backquotes.
fn put_printed(line: &mut String, code: u8) -> Result<(), AllocError>
    requires { code < 128 }
    ensures { OnOk result (string_bytes line.new ≡ string_bytes line.old ++ 96 ∷ code ∷ 96 ∷ []) }
{
    line.push('`')?;
    line.push(char::from(code))?;
    line.push('`')
}

// Appends a byte in two hexadecimal digits.
fn put_byte(line: &mut String, code: u8) -> Result<(), AllocError>
    ensures { OnOk result (string_bytes line.new ≡ string_bytes line.old ++ (codes "byte 0x" ++ digit_glyph true (code / 16) ∷ digit_glyph true (code % 16) ∷ [])) }
{
    line.push_str("byte 0x")?;
    line.push(hex_digit(code / 16))?;
    line.push(hex_digit(code % 16))
}

// A hexadecimal digit, in capitals.
fn hex_digit(digit: u8) -> char
    requires { digit < 16 }
    ensures digit { result ≡ digit_glyph true digit }
    ensures ascii { result < 128 }
{
    if digit < 10 {
        char::from(b'0' + digit)
    } else {
        char::from(b'A' - 10 + digit)
    }
}
