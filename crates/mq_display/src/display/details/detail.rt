//! A field or a property, by its name.
#![tactic(auto, using(crate::proofs::OutgoingLaws::putting, crate::proofs::DetailLaws::detailing))]

ghost use Rattle.std.specs.Prelude.{◌∷◌, ◌++◌};
ghost use Rattle.std.specs.List.{flat_map};
ghost use Rattle.mq_display.specs.Detailing.{detail_words, shown_words};
ghost use Rattle.mq_display.specs.ItemText.{with_spaces};
ghost use Rattle.mq_display.specs.Outgoing.{Puts};

use super::super::outgoing::Outgoing;
use super::quoting::{put_hex_digits, put_quoted};
use std::io::Write;

/// The value of a detail.
#[derive(Clone, Copy)]
pub enum Shown<'a> {
    /// A number, in decimal digits.
    Number(u64),
    /// A flag, as 0 or 1.
    Flag(bool),
    /// Binary data, by its length in bytes alone.
    Size(&'a [u8]),
    /// A Reason Code, as `0x` and two hexadecimal digits.
    Code(u8),
    /// A text, in double quotes.
    Text(&'a str),
    /// The name and the value of a User Property, each in double quotes.
    Pair(&'a str, &'a str),
}

/// A field or a property, by its name.
#[derive(Clone, Copy)]
pub struct Detail<'a> {
    /// The name, in lower case with hyphens.
    pub name: &'static str,
    /// The value.
    pub value: Shown<'a>,
}

/// Appends details, one after another.
pub fn put_all<W: Write>(out: &mut Outgoing<'_, W>, details: &[Detail<'_>])
    ensures { Puts W.contents out.old (with_spaces (flat_map detail_words details.now)) out.new }
{
    for detail in details {
        put_detail(out, "", detail);
    }
}

/// Appends a detail, each word with a space before it, and the prefix before its name.
pub fn put_detail<W: Write>(out: &mut Outgoing<'_, W>, prefix: &str, detail: &Detail<'_>)
    ensures { Puts W.contents out.old (with_spaces ((prefix.now ++ detail.now.name.now) ∷ shown_words detail.now.value)) out.new }
{
    out.put(" ");
    out.put(prefix);
    out.put(detail.name);
    put_shown(out, detail.value);
}

// Appends the words of a value, each with a space before it.
fn put_shown<W: Write>(out: &mut Outgoing<'_, W>, value: Shown<'_>)
    ensures { Puts W.contents out.old (with_spaces (shown_words value.entry)) out.new }
{
    out.put(" ");
    match value {
        Shown::Number(number) => out.put_number(number),
        Shown::Flag(flag) => out.put_number(u64::from(flag)),
        Shown::Size(bytes) => out.put_number(bytes.len() as u64),
        Shown::Code(code) => {
            out.put("0x");
            put_hex_digits(out, code);
        }
        Shown::Text(text) => put_quoted(out, text),
        Shown::Pair(name, value) => {
            put_quoted(out, name);
            out.put(" ");
            put_quoted(out, value);
        }
    }
}
