//! The line that says what bytes are that should be one packet.
ghost use Rattle.std.specs.Prelude.{◌≡◌, ◌≤◌, ◌↔◌, true, ◌++◌, IfOk, IfErr, OnOk, length};
ghost use Rattle.std.specs.Io.KnownBytes.{Appends};
ghost use Rattle.mq_display.specs.OnePacket.{IsOnePacket, finding, finding_text, finds_packet, frame_finding, is_one_packet, packet_report};
ghost use Rattle.mq_report.specs.Report.{line};
ghost use Rattle.mq_packet.specs.Decoding.{decoded};
ghost use Rattle.mq_packet.specs.Entries.{Entry};
ghost use Rattle.mq_packet.specs.Spelled.{IsSpelled};
ghost use Rattle.mq_trace.specs.Writing.{AppendsBeginning};

use super::item::{LOST, put_broken, put_packet};
use super::packet_summary::PacketSummary;
use mq_packet::{Cut, DecodeFault, PacketRule, cut, decode};
use mq_report::{Lines, RunFault, write_bytes};
use std::fmt;
use std::fmt::Write as _;
use std::io::Write;

/// What bytes are that should be one packet.
#[derive(Clone, Copy)]
enum Finding {
    /// They are the beginning of a frame.
    NeedMore,
    /// This many bytes follow a whole frame.
    LeftOver(usize),
    /// One frame that is a packet of this size.
    Packet(PacketSummary, u32),
    /// One frame that breaks this rule, in the field at this offset.
    Broken(PacketRule, u32),
    /// The Remaining Length is invalid, so no frame can begin with them.
    Lost,
    /// The frame of a CONNECT of another protocol version (MQTT 5.0, section 3.1.2.2).
    OtherVersion(u8),
}

impl Finding {
    // What these bytes are.
    #[tactic(auto, unfolding(crate::specs::OnePacket::finding))]
    fn of(bytes: &[u8]) -> Finding
        ensures exact { result ≡ finding bytes.now }
        ensures one_packet { (finds_packet result ≡ true) ↔ IsOnePacket bytes.now }
    {
        match cut(bytes) {
            Cut::Need => Finding::NeedMore,
            Cut::Lost => Finding::Lost,
            Cut::Frame {
                first,
                body_start,
                body_end,
            } => {
                if body_end < bytes.len() {
                    return Finding::LeftOver(bytes.len() - body_end);
                }
                Finding::of_frame(first, &bytes[body_start..], body_end as u32)
            }
        }
    }

    // What a frame is that has this first byte, this body and this size.
    fn of_frame(first: u8, body: &[u8], size: u32) -> Finding
        requires { length body.now ≤ 268435455 }
        ensures exact { result ≡ frame_finding first size (decoded first body.now) }
        ensures spells { (finds_packet result ≡ true) ↔ ((packet : Entry) × IsSpelled first body.now packet) }
    {
        match decode(first, body) {
            Ok(packet) => Finding::Packet(PacketSummary::of(&packet), size),
            Err(DecodeFault::Broken(fault)) => Finding::Broken(fault.rule, fault.at),
            Err(DecodeFault::OtherVersion(version)) => Finding::OtherVersion(version),
        }
    }

    // Whether the bytes are one packet, and no byte is left over.
    fn is_packet(&self) -> bool
        ensures { result ≡ finds_packet self.now }
    {
        matches!(self, Finding::Packet(..))
    }
}

// Appends a finding's text to the waiting lines.
fn put_finding(lines: &mut Lines, found: Finding) -> fmt::Result
    ensures { OnOk result (lines.new ≡ lines.old ++ finding_text found) }
{
    match found {
        Finding::NeedMore => lines.put("need more bytes"),
        Finding::LeftOver(count) => write!(lines, "left over {count} bytes"),
        Finding::Packet(packet, size) => put_packet(lines, packet, size),
        Finding::Broken(rule, at) => put_broken(lines, rule, at),
        Finding::Lost => lines.put(LOST),
        Finding::OtherVersion(version) => write!(lines, "other version {version}"),
    }
}

// Appends a finding's line to them.
fn put_finding_line(lines: &mut Lines, found: Finding) -> fmt::Result
    ensures { OnOk result (lines.new ≡ lines.old ++ line (finding_text found)) }
{
    put_finding(lines, found)?;
    lines.put("\n")
}

// Writes a finding's line.
fn write_finding<W: Write>(found: Finding, writer: &mut W) -> Result<(), RunFault>
    ensures ok { OnOk result (Appends (W.contents writer.old) (W.contents writer.new) (line (finding_text found))) }
    ensures write { IfErr result (λ fault. (fault ≡ RunFault.Write)
        × AppendsBeginning (W.contents writer.old) (W.contents writer.new) (line (finding_text found))) }
{
    let mut lines = Lines::new();
    match put_finding_line(&mut lines, found) {
        Ok(()) => write_bytes(lines.as_bytes(), writer),
        Err(_) => Err(RunFault::Write),
    }
}

/// Writes the line that says what these bytes are, which should be one Control Packet (MQTT 5.0,
/// section 2.1), and returns whether they are: one frame, with nothing before or after it, that
/// spells a packet. It takes no memory.
///
/// The line is `<TYPE> size <n>` for a packet, with ` qos <q> dup <d>` for a PUBLISH and ` id <i>`
/// if there is a Packet Identifier; `BAD <code> offset <n>` for a frame that breaks a rule, with
/// the field's offset; `other version <n>` for a CONNECT of another protocol version; `left over
/// <n> bytes` if bytes follow a whole frame, whatever it holds; `LOST` if the Remaining Length is
/// invalid; and `need more bytes` if it or the frame isn't whole.
///
/// # Errors
///
/// `Write` if a write failed: the writer returned an error, also one for an interruption, or took
/// no byte. A beginning of the line was then written.
///
/// # Examples
///
/// ```
/// let mut line = Vec::new(rt.alloc());
/// assert!(rt; write_packet(b"\x40\x02\x00\x0a", &mut line)?);
/// assert_eq!(rt; line.as_slice(), b"PUBACK size 4 id 10\n".as_slice());
/// ```
#[tactic(auto, unfolding(crate::specs::OnePacket::packet_report, crate::specs::OnePacket::is_one_packet))]
pub fn write_packet<W: Write>(bytes: &[u8], writer: &mut W) -> Result<bool, RunFault>
    ensures ok { OnOk result (Appends (W.contents writer.old) (W.contents writer.new) (packet_report bytes.now)) }
    ensures answer { IfOk result (λ answer. answer ≡ is_one_packet bytes.now) }
    ensures one_packet { IfOk result (λ answer. (answer ≡ true) ↔ IsOnePacket bytes.now) }
    ensures write { IfErr result (λ fault. (fault ≡ RunFault.Write)
        × AppendsBeginning (W.contents writer.old) (W.contents writer.new) (packet_report bytes.now)) }
{
    let found = Finding::of(bytes);
    write_finding(found, writer)?;
    Ok(found.is_packet())
}
