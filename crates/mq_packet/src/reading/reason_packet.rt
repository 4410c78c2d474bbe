//! The reader of DISCONNECT and AUTH (MQTT 5.0, sections 3.14 and 3.15).

ghost use Rattle.std.specs.Prelude.{◌≡◌, ◌≤◌, Some, IfOk};
ghost use Rattle.mq_wire.specs.Spellings.{max_varint};
ghost use Rattle.mq_packet.specs.Entries.{reason_packet};
ghost use Rattle.mq_packet.specs.Formats.{reason_packet_format};
ghost use Rattle.mq_packet.specs.Decoding.{read};
ghost use Rattle.mq_packet.specs.Reading.{Reads};

use super::fields::{SUCCESS, last_properties, reason_code};
use crate::packet::{ReasonPacket, ReasonPacketKind};
use crate::read_fault::ReadFault;
use mq_props::Props;
use mq_wire::Cursor;

/// Reads a DISCONNECT or AUTH (MQTT 5.0, sections 3.14 and 3.15) from all that is left of a body of
/// this size, which it keeps. An empty one has the Reason Code 0x00; if it ends after its code, it
/// has no properties.
///
/// # Errors
///
/// The first rule that a field breaks: W06, W13, or one of its property list.
#[inline(never)]
pub fn read_reason_packet<'a>(
    mut cursor: Cursor<'a>,
    kind: ReasonPacketKind,
    size: usize,
) -> Result<ReasonPacket<'a>, ReadFault>
    requires { size ≤ max_varint }
    ensures read { Reads (λ p. reason_packet kind p.code p.properties) result (read (reason_packet_format kind) cursor.entry) }
    ensures read_len { IfOk result (λ p. p.read_len ≡ Some size) }
{
    let place = kind.place();
    if cursor.is_empty() {
        return Ok(ReasonPacket {
            code: SUCCESS,
            properties: Props::empty(place),
            read_len: Some(size as u32),
        });
    }
    let code = reason_code(&mut cursor, kind.codes())?;
    let properties = last_properties(cursor, place)?;
    Ok(ReasonPacket {
        code,
        properties,
        read_len: Some(size as u32),
    })
}
