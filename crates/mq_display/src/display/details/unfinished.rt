//! What is shown of the packets that a CLOSE leaves unfinished.
#![tactic(auto, using(crate::proofs::OutgoingLaws::putting, crate::proofs::DetailLaws::detailing))]

ghost use Rattle.std.specs.Prelude.{◌∷◌, [], codes};
ghost use Rattle.mq_log.specs.Reception.{packets_of};
ghost use Rattle.mq_display.specs.Details.{begun_words, closing_words, first_words, unfinished_words};
ghost use Rattle.mq_display.specs.ItemText.{with_spaces};
ghost use Rattle.mq_display.specs.Outgoing.{Puts};

use super::super::outgoing::Outgoing;
use super::broken::{SHOWN, between, put_gap, put_hex, put_type};
use super::detail::{Detail, Shown, put_detail};
use mq_log::UnfinishedPackets;
use std::io::Write;

/// Appends what is shown of the packets that a CLOSE leaves unfinished, each word with a space
/// before it. Of each that there is, these are `unfinished`, the word `sent` or `received`, its
/// type, how many bytes of it came, and at most the first 64 of them in hexadecimal digits. Where
/// bytes are left out there is `..`.
pub fn put_unfinished<W: Write>(out: &mut Outgoing<'_, W>, unfinished: &UnfinishedPackets<'_>)
    ensures { Puts W.contents out.old (with_spaces (closing_words (packets_of unfinished.now))) out.new }
{
    put_direction(out, "sent", unfinished.sent);
    put_direction(out, "received", unfinished.received);
}

// Appends what is shown of the packet that a direction has begun, if there are bytes of one.
fn put_direction<W: Write>(out: &mut Outgoing<'_, W>, direction: &str, bytes: &[u8])
    ensures { Puts W.contents out.old (with_spaces (unfinished_words direction.now bytes.now)) out.new }
{
    if !bytes.is_empty() {
        put_begun(out, direction, bytes);
    }
}

// Appends what is shown of a packet that isn't whole, with the word on its direction.
fn put_begun<W: Write>(out: &mut Outgoing<'_, W>, direction: &str, bytes: &[u8])
    ensures { Puts W.contents out.old (with_spaces (begun_words direction.now bytes.now)) out.new }
{
    put_heading(out, direction);
    put_type(out, bytes);
    put_detail(
        out,
        "",
        &Detail {
            name: "size",
            value: Shown::Size(bytes),
        },
    );
    put_first(out, bytes);
}

// Appends the words before the packet's type.
fn put_heading<W: Write>(out: &mut Outgoing<'_, W>, direction: &str)
    ensures { Puts W.contents out.old (with_spaces (codes "unfinished" ∷ direction.now ∷ [])) out.new }
{
    out.put(" unfinished ");
    out.put(direction);
}

// Appends the first of these bytes.
fn put_first<W: Write>(out: &mut Outgoing<'_, W>, bytes: &[u8])
    ensures { Puts W.contents out.old (with_spaces (first_words bytes.now)) out.new }
{
    out.put(" bytes");
    put_hex(out, between(bytes, 0, SHOWN));
    put_gap(out, SHOWN < bytes.len());
}
