//! The digits that spell a packet's bytes.
ghost use Rattle.std.specs.Prelude.{◌≡◌, IfOk, map, string_bytes};
ghost use Rattle.mq_command.specs.Digits.{is_between, is_dash, is_prefix, packed, spaced};

use std::alloc::{AllocError, Global};
use std::convert::AsStr;

/// The digits of a text without what stands before, between and after bytes, each of which is two
/// digits: spaces, tabs, line ends, commas, colons, and `0x` or `0X`. Between the two digits of a
/// byte nothing may stand: what does stays, and so isn't hexadecimal.
pub fn packed(alloc: Global, text: &[u8]) -> Result<Vec<u8>, AllocError>
    ensures { IfOk result (λ digits. digits.items ≡ packed text.now) }
{
    let mut packed = Vec::new(alloc);
    let mut rest = text;
    while let [first, after @ ..] = rest {
        rest = after;
        if is_between(*first) {
            continue;
        }
        let [second, later @ ..] = after else {
            packed.push(*first)?;
            return Ok(packed);
        };
        rest = later;
        if is_prefix(*first, *second) {
            continue;
        }
        packed.push(*first)?;
        packed.push(*second)?;
    }
    Ok(packed)
}

/// Whether a character may stand before, between and after bytes: a space, a tab, a line end, a
/// comma or a colon.
pub fn is_between(code: u8) -> bool
    ensures { result ≡ is_between code }
{
    matches!(code, b'\t' | b'\n' | b'\r' | b' ' | b',' | b':')
}

/// Whether two characters are `0x` or `0X`.
pub fn is_prefix(first: u8, second: u8) -> bool
    ensures { result ≡ is_prefix first second }
{
    first == b'0' && (second == b'x' || second == b'X')
}

/// Whether an operand stands for standard input.
pub fn is_dash(operand: &str) -> bool
    ensures { result ≡ is_dash operand.now }
{
    operand == "-"
}

/// The words as one text, with a space between two.
pub fn spaced<S: AsStr>(alloc: Global, words: &[S]) -> Result<String, AllocError>
    ensures { IfOk result (λ text. string_bytes text ≡ spaced (map S.text words.now)) }
{
    let mut text = String::new(alloc);
    let mut rest = words;
    while let [word, after @ ..] = rest {
        text.push_str(word.as_str())?;
        if !after.is_empty() {
            text.push_str(" ")?;
        }
        rest = after;
    }
    Ok(text)
}
