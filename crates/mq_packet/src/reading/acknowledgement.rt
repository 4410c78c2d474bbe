//! The reader of PUBACK, PUBREC, PUBREL and PUBCOMP (MQTT 5.0, sections 3.4 to 3.7).

ghost use Rattle.std.specs.Prelude.{◌≡◌, ◌≤◌, Some, IfOk};
ghost use Rattle.mq_wire.specs.Spellings.{max_varint};
ghost use Rattle.mq_packet.specs.Entries.{acknowledgement, acknowledgement_place};
ghost use Rattle.mq_packet.specs.Formats.{acknowledgement_format, last_properties};
ghost use Rattle.mq_packet.specs.Decoding.{read};
ghost use Rattle.mq_packet.specs.Reading.{Reads};

use super::fields::{SUCCESS, last_properties, packet_identifier, reason_code};
use crate::packet::{Acknowledgement, AcknowledgementKind};
use crate::read_fault::ReadFault;
use mq_props::Props;
use mq_wire::Cursor;

/// Reads a PUBACK, PUBREC, PUBREL or PUBCOMP (MQTT 5.0, sections 3.4 to 3.7) from all that is left
/// of a body of this size, which it keeps. If it ends after its identifier, its Reason Code is
/// 0x00; if it ends after its code, it has no properties.
///
/// # Errors
///
/// The first rule that a field breaks: W06, W09, W13, or one of its property list.
#[inline(always)]
pub fn read_acknowledgement<'a>(
    mut cursor: Cursor<'a>,
    kind: AcknowledgementKind,
    size: usize,
) -> Result<Acknowledgement<'a>, ReadFault>
    requires { size ≤ max_varint }
    ensures read { Reads (λ p. acknowledgement kind p.identifier p.code p.properties) result (read (acknowledgement_format kind) cursor.entry) }
    ensures read_len { IfOk result (λ p. p.read_len ≡ Some size) }
{
    let identifier = packet_identifier(&mut cursor)?;
    if cursor.is_empty() {
        return Ok(Acknowledgement {
            identifier,
            code: SUCCESS,
            properties: Props::empty(kind.place()),
            read_len: Some(size as u32),
        });
    }
    let code = reason_code(&mut cursor, kind.codes())?;
    read_after_code(cursor, kind, identifier, code, size)
}

// The acknowledgement with this identifier and code, whose properties, if there are any, are left.
#[inline(always)]
fn read_after_code<'a>(
    cursor: Cursor<'a>,
    kind: AcknowledgementKind,
    identifier: u16,
    code: u8,
    size: usize,
) -> Result<Acknowledgement<'a>, ReadFault>
    requires { size ≤ max_varint }
    ensures read { Reads (λ p. acknowledgement kind p.identifier p.code p.properties) result (read (last_properties (acknowledgement_place kind) (acknowledgement kind identifier code)) cursor.entry) }
    ensures read_len { IfOk result (λ p. p.read_len ≡ Some size) }
{
    let properties = last_properties(cursor, kind.place())?;
    Ok(Acknowledgement {
        identifier,
        code,
        properties,
        read_len: Some(size as u32),
    })
}
