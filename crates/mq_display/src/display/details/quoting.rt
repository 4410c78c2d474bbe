//! Texts in double quotes, which stay on one line whatever they hold.
#![tactic(auto, using(crate::proofs::OutgoingLaws::putting, crate::proofs::DetailLaws::detailing))]

ghost use Rattle.std.specs.Prelude.{◌≡◌, ◌<◌, true};
ghost use Rattle.std.specs.Fmt.{digit_glyph};
ghost use Rattle.std.specs.List.{flat_map};
ghost use Rattle.mq_display.specs.Details.{escaped, hex_digits, is_control, is_quoting, quoted};
ghost use Rattle.mq_display.specs.Outgoing.{Puts};

use super::super::outgoing::Outgoing;
use std::io::Write;

/// Appends a text in double quotes: a double quote and a backslash after a backslash, and a control
/// character as `\x` and its two hexadecimal digits.
pub fn put_quoted<W: Write>(out: &mut Outgoing<'_, W>, text: &str)
    ensures { Puts W.contents out.old (quoted text.now) out.new }
{
    out.put("\"");
    put_escaped(out, text.as_bytes());
    out.put("\"");
}

/// Appends the two hexadecimal digits of a byte, in capitals.
pub fn put_hex_digits<W: Write>(out: &mut Outgoing<'_, W>, byte: u8)
    ensures { Puts W.contents out.old (hex_digits byte) out.new }
{
    out.put_bytes(&[hex_digit(byte / 16), hex_digit(byte % 16)]);
}

// Appends bytes of a text that is in double quotes.
fn put_escaped<W: Write>(out: &mut Outgoing<'_, W>, bytes: &[u8])
    ensures { Puts W.contents out.old (flat_map escaped bytes.now) out.new }
{
    for byte in bytes {
        put_escaped_byte(out, *byte);
    }
}

// Appends one of them, escaped if it can't be in double quotes as it is.
fn put_escaped_byte<W: Write>(out: &mut Outgoing<'_, W>, byte: u8)
    ensures { Puts W.contents out.old (escaped byte) out.new }
{
    if is_quoting(byte) {
        out.put_bytes(&[b'\\', byte]);
    } else if is_control(byte) {
        out.put("\\x");
        put_hex_digits(out, byte);
    } else {
        out.put_bytes(&[byte]);
    }
}

// Whether a byte is a double quote or a backslash, which are escaped in a text in double quotes.
fn is_quoting(byte: u8) -> bool
    ensures { result ≡ is_quoting byte }
{
    byte == b'"' || byte == b'\\'
}

// Whether a byte is a control character of ASCII.
fn is_control(byte: u8) -> bool
    ensures { result ≡ is_control byte }
{
    byte < 0x20 || byte == 0x7f
}

// A hexadecimal digit, in capitals.
fn hex_digit(digit: u8) -> u8
    requires { digit < 16 }
    ensures { result ≡ digit_glyph true digit }
{
    if digit < 10 {
        b'0' + digit
    } else {
        b'A' - 10 + digit
    }
}
