//! What is shown of a packet that breaks a rule: its type, and its bytes around the wrong one.
#![tactic(auto, using(crate::proofs::OutgoingLaws::putting, crate::proofs::DetailLaws::detailing))]

ghost use Rattle.std.specs.Prelude.{◌≡◌, ◌<◌, ◌≤◌, ◌^◌, [], ◌∷◌};
ghost use Rattle.std.specs.List.{flat_map};
ghost use Rattle.mq_display.specs.Details.{broken_words, gap_words, hex_digits, hex_words, mark_words, marked, shown_from, type_words, words_around, words_from};
ghost use Rattle.mq_display.specs.ItemText.{with_spaces};
ghost use Rattle.mq_display.specs.Marking.{between};
ghost use Rattle.mq_display.specs.Outgoing.{Puts};

use super::super::outgoing::Outgoing;
use super::marking::marked_at;
use super::quoting::put_hex_digits;
use mq_packet::PacketRule;
use mq_report::type_of;
use std::io::Write;

/// How many bytes are shown at most.
pub const SHOWN: usize = 64;

/// How many of them come before the marked one, if that isn't among the packet's first `SHOWN`.
const BEFORE: usize = 32;

/// Appends what is shown of a packet that has these bytes and breaks a rule at this offset, each
/// word with a space before it: its type, and at most 64 of its bytes in hexadecimal digits, with
/// the one in brackets that `marked_at` gives. They are the first ones, or those around the mark if
/// that is farther. If the mark isn't at the offset, its own offset comes before them, as `at 4`.
/// If the packet ends before the mark, the brackets have nothing between them. Where bytes are left
/// out there is `..`.
pub fn put_broken<W: Write>(out: &mut Outgoing<'_, W>, bytes: &[u8], rule: PacketRule, at: u32)
    ensures { Puts W.contents out.old (with_spaces (broken_words bytes.now rule at)) out.new }
{
    put_type(out, bytes);
    put_around(out, bytes, at as usize, marked_at(bytes, rule, at));
}

// Appends the bytes around the mark, with its place.
fn put_around<W: Write>(out: &mut Outgoing<'_, W>, bytes: &[u8], at: usize, mark: usize)
    requires { mark < 2 ^ 33 }
    ensures { Puts W.contents out.old (with_spaces (words_around at mark bytes.now)) out.new }
{
    put_mark(out, at, mark);
    put_from(out, bytes, shown_from(mark), mark);
}

// Appends the offset of the mark, if it isn't the fault's.
fn put_mark<W: Write>(out: &mut Outgoing<'_, W>, at: usize, mark: usize)
    ensures { Puts W.contents out.old (with_spaces (mark_words at mark)) out.new }
{
    if mark != at {
        out.put(" at ");
        out.put_number(mark as u64);
    }
}

/// Appends the type that the first byte names (MQTT 5.0, section 2.1.2).
pub fn put_type<W: Write>(out: &mut Outgoing<'_, W>, bytes: &[u8])
    ensures { Puts W.contents out.old (with_spaces (type_words bytes.now)) out.new }
{
    match bytes {
        [first, ..] => {
            out.put(" type ");
            out.put(type_of(*first));
        }
        [] => {}
    }
}

// Appends the bytes from one offset on, with the marked one in brackets.
fn put_from<W: Write>(out: &mut Outgoing<'_, W>, bytes: &[u8], start: usize, at: usize)
    requires { (start ≤ at) × (at < 2 ^ 33) }
    ensures { Puts W.contents out.old (with_spaces (words_from start at bytes.now)) out.new }
{
    let end = start + SHOWN;
    out.put(" bytes");
    put_gap(out, start > 0);
    put_hex(out, between(bytes, start, at));
    put_marked(out, between(bytes, at, at + 1));
    put_hex(out, between(bytes, at + 1, end));
    put_gap(out, end < bytes.len());
}

// The offset of the first byte that is shown, if the one at this offset is marked.
fn shown_from(at: usize) -> usize
    ensures is { result ≡ shown_from at }
    ensures before { result ≤ at }
{
    if at < SHOWN { 0 } else { at - BEFORE }
}

/// The bytes from one offset to another, of which the latter doesn't count, as far as there are
/// any.
pub fn between(bytes: &[u8], start: usize, end: usize) -> &[u8]
    ensures { result.now ≡ between start end bytes.now }
{
    let end = end.min(bytes.len());
    let start = start.min(end);
    &bytes[start..end]
}

/// Appends `..` if bytes are left out.
pub fn put_gap<W: Write>(out: &mut Outgoing<'_, W>, left_out: bool)
    ensures { Puts W.contents out.old (with_spaces (gap_words left_out)) out.new }
{
    if left_out {
        out.put(" ..");
    }
}

/// Appends bytes in hexadecimal digits, each with a space before it.
pub fn put_hex<W: Write>(out: &mut Outgoing<'_, W>, bytes: &[u8])
    ensures { Puts W.contents out.old (with_spaces (flat_map hex_words bytes.now)) out.new }
{
    for byte in bytes {
        put_hex_word(out, *byte);
    }
}

// Appends a space and the hexadecimal digits of a byte.
fn put_hex_word<W: Write>(out: &mut Outgoing<'_, W>, byte: u8)
    ensures { Puts W.contents out.old (with_spaces (hex_words byte)) out.new }
{
    out.put(" ");
    put_hex_digits(out, byte);
}

// Appends the marked byte in brackets, or empty brackets if there is none.
fn put_marked<W: Write>(out: &mut Outgoing<'_, W>, bytes: &[u8])
    ensures { Puts W.contents out.old (with_spaces (marked bytes.now ∷ [])) out.new }
{
    out.put(" [");
    put_all_digits(out, bytes);
    out.put("]");
}

// Appends the hexadecimal digits of bytes, with nothing between them.
fn put_all_digits<W: Write>(out: &mut Outgoing<'_, W>, bytes: &[u8])
    ensures { Puts W.contents out.old (flat_map hex_digits bytes.now) out.new }
{
    for byte in bytes {
        put_hex_digits(out, *byte);
    }
}
