//! What is printed of bytes that should be one packet, with all that it says.
#![tactic(auto, using(crate::proofs::OutgoingLaws::putting))]

ghost use Rattle.std.specs.Prelude.{◌≡◌, ◌≤◌, ◌↔◌, true, false, [], ◌∷◌, IfOk, IfErr, IfSome, IsNone, OnOk, length};
ghost use Rattle.std.specs.Io.KnownBytes.{Appends};
ghost use Rattle.mq_display.specs.ItemText.{packet_rule_code};
ghost use Rattle.mq_display.specs.LongPacket.{fault_lines, field_lines, frame_lines, has_fields, inner_line, long_packet_report, packet_lines};
ghost use Rattle.mq_display.specs.Details.{broken_words, packet_words};
ghost use Rattle.mq_display.specs.OnePacket.{IsOnePacket};
ghost use Rattle.mq_display.specs.Outgoing.{Puts};
ghost use Rattle.mq_display.specs.Sentences.{packet_rule_sentence};
ghost use Rattle.mq_packet.specs.Decoding.{decoded};
ghost use Rattle.mq_packet.specs.Reading.{view};
ghost use Rattle.mq_trace.specs.Writing.{AppendsBeginning};

use super::display::details::{put_broken, put_packet_details};
use super::display::outgoing::Outgoing;
use super::finding::write_packet;
use super::item::rule_code;
use super::sentences::rule_sentence;
use mq_packet::{Cut, DecodeFault, Packet, PacketRule, cut, decode};
use mq_report::RunFault;
use std::io::Write;

/// Writes the line that `write_packet` writes of these bytes, and after it what else there is to
/// say, each line after two spaces: of a packet its other fields and its properties, as `show_long`
/// writes them; of one that breaks a rule its type, its bytes around the one that is wrong, which
/// is in brackets, and the statement's code and sentence. Returns whether they are a packet.
///
/// # Errors
///
/// `Write` if a write failed. A beginning of the lines was then written.
///
/// # Examples
///
/// ```
/// let mut lines = Vec::new(rt.alloc());
/// assert!(rt; write_long_packet(b"\x40\x02\x00\x0a", &mut lines)?);
/// let shown = b"PUBACK size 4 id 10\n  code 0x00\n";
/// assert_eq!(rt; lines.as_slice(), shown.as_slice());
/// ```
pub fn write_long_packet<W: Write>(bytes: &[u8], writer: &mut W) -> Result<bool, RunFault>
    ensures ok { OnOk result (Appends (W.contents writer.old) (W.contents writer.new) (long_packet_report bytes.now)) }
    ensures one_packet { IfOk result (λ answer. (answer ≡ true) ↔ IsOnePacket bytes.now) }
    ensures write { IfErr result (λ fault. (fault ≡ RunFault.Write)
        × AppendsBeginning (W.contents writer.old) (W.contents writer.new) (long_packet_report bytes.now)) }
{
    match write_packet(bytes, writer) {
        Ok(is_packet) => match write_lines(bytes, writer) {
            Ok(()) => Ok(is_packet),
            Err(fault) => Err(fault),
        },
        Err(fault) => Err(fault),
    }
}

// Writes what is printed after the line.
fn write_lines<W: Write>(bytes: &[u8], writer: &mut W) -> Result<(), RunFault>
    ensures ok { OnOk result (Appends (W.contents writer.old) (W.contents writer.new) (packet_lines bytes.now)) }
    ensures write { IfErr result (λ fault. (fault ≡ RunFault.Write)
        × AppendsBeginning (W.contents writer.old) (W.contents writer.new) (packet_lines bytes.now)) }
{
    let mut out = Outgoing::to(writer);
    send_lines(bytes, &mut out)
}

// Writes it by an `Outgoing` without text.
fn send_lines<W: Write>(bytes: &[u8], out: &mut Outgoing<'_, W>) -> Result<(), RunFault>
    requires { (out.old.failed ≡ false) × (out.old.lines ≡ []) }
    ensures same { out.new.writer.ghost_name ≡ out.old.writer.ghost_name }
    ensures ok { OnOk result (Appends (W.contents out.old.writer.now) (W.contents out.new.writer.now) (packet_lines bytes.now)) }
    ensures write { IfErr result (λ fault. (fault ≡ RunFault.Write)
        × AppendsBeginning (W.contents out.old.writer.now) (W.contents out.new.writer.now) (packet_lines bytes.now)) }
{
    put_lines(out, bytes);
    out.write_last()
}

// Appends what is printed after the line.
fn put_lines<W: Write>(out: &mut Outgoing<'_, W>, bytes: &[u8])
    ensures { Puts W.contents out.old (packet_lines bytes.now) out.new }
{
    match one_frame(bytes) {
        Some((first, body)) => put_frame(out, bytes, first, body),
        None => {}
    }
}

// The first byte and the body of the one frame that the bytes are, if they are one.
#[tactic(auto, unfolding(crate::specs::LongPacket::packet_lines))]
fn one_frame(bytes: &[u8]) -> Option<(u8, &[u8])>
    ensures frame { IfSome result (λ frame. packet_lines bytes.now ≡ frame_lines bytes.now (decoded frame.0 frame.1.now)) }
    ensures size { IfSome result (λ frame. length frame.1.now ≤ 268435455) }
    ensures other { IsNone result → packet_lines bytes.now ≡ [] }
{
    match cut(bytes) {
        Cut::Need | Cut::Lost => None,
        Cut::Frame {
            first,
            body_start,
            body_end,
        } => {
            if body_end < bytes.len() {
                return None;
            }
            Some((first, &bytes[body_start..]))
        }
    }
}

// Appends what is printed of one frame that has this first byte and this body.
fn put_frame<W: Write>(out: &mut Outgoing<'_, W>, bytes: &[u8], first: u8, body: &[u8])
    requires { length body.now ≤ 268435455 }
    ensures { Puts W.contents out.old (frame_lines bytes.now (decoded first body.now)) out.new }
{
    match decode(first, body) {
        Ok(packet) => put_fields(out, &packet),
        Err(DecodeFault::Broken(fault)) => put_fault(out, bytes, fault.rule, fault.at),
        Err(DecodeFault::OtherVersion(_)) => {}
    }
}

// Appends the line of a packet's fields and properties, if it has any.
fn put_fields<W: Write>(out: &mut Outgoing<'_, W>, packet: &Packet<'_>)
    ensures { Puts W.contents out.old (field_lines (view packet.now)) out.new }
{
    if has_fields(packet) {
        put_field_line(out, packet);
    }
}

// Whether a packet has fields: any but a PINGREQ and a PINGRESP (MQTT 5.0, sections 3.12 and 3.13).
fn has_fields(packet: &Packet<'_>) -> bool
    ensures { result ≡ has_fields (view packet.now) }
{
    match packet {
        Packet::Pingreq | Packet::Pingresp => false,
        _ => true,
    }
}

// Appends the line of a packet's fields and properties.
fn put_field_line<W: Write>(out: &mut Outgoing<'_, W>, packet: &Packet<'_>)
    ensures { Puts W.contents out.old (inner_line (packet_words (view packet.now))) out.new }
{
    out.put(" ");
    put_packet_details(out, packet);
    out.put("\n");
}

// Appends the lines of a packet that breaks a rule at this offset.
fn put_fault<W: Write>(out: &mut Outgoing<'_, W>, bytes: &[u8], rule: PacketRule, at: u32)
    ensures { Puts W.contents out.old (fault_lines bytes.now rule at) out.new }
{
    put_bytes(out, bytes, rule, at);
    put_statement(out, rule);
}

// Appends the line of its type and its bytes.
fn put_bytes<W: Write>(out: &mut Outgoing<'_, W>, bytes: &[u8], rule: PacketRule, at: u32)
    ensures { Puts W.contents out.old (inner_line (broken_words bytes.now rule at)) out.new }
{
    out.put(" ");
    put_broken(out, bytes, rule, at);
    out.put("\n");
}

// Appends the line of the statement that it breaks.
fn put_statement<W: Write>(out: &mut Outgoing<'_, W>, rule: PacketRule)
    ensures { Puts W.contents out.old (inner_line (packet_rule_code rule ∷ packet_rule_sentence rule ∷ [])) out.new }
{
    out.put("  ");
    out.put(rule_code(rule));
    out.put(" ");
    out.put(rule_sentence(rule));
    out.put("\n");
}
