//! The reader of CONNACK (MQTT 5.0, section 3.2).

ghost use Rattle.std.specs.Prelude.{◌≡◌};
ghost use Rattle.mq_packet.specs.Entries.{connack};
ghost use Rattle.mq_packet.specs.Formats.{byte, connack_flags_objection, connack_format};
ghost use Rattle.mq_packet.specs.Decoding.{read, read_field};
ghost use Rattle.mq_packet.specs.Reading.{ReadsField, Reads};

use super::fields::{property_list, reason_code, whole};
use crate::codes::CONNACK_CODES;
use crate::packet::Connack;
use crate::read_fault::ReadFault;
use crate::rule::PacketRule;
use mq_props::Place;
use mq_wire::Cursor;

/// The Connect Acknowledge Flag Session Present (MQTT 5.0, section 3.2.2.1.1).
const SESSION_PRESENT: u8 = 0x01;

/// Reads a CONNACK (MQTT 5.0, section 3.2) from all that is left.
///
/// # Errors
///
/// The first rule that a field breaks: W06, W20, W13, or one of its property list.
#[inline(never)]
pub fn read_connack<'a>(mut cursor: Cursor<'a>) -> Result<Connack<'a>, ReadFault>
    ensures { Reads (λ p. connack p.session_present p.code p.properties) result (read connack_format cursor.entry) }
{
    let flags = connack_flags(&mut cursor)?;
    let code = reason_code(&mut cursor, &CONNACK_CODES)?;
    let properties = property_list(&mut cursor, Place::Connack)?;
    let session_present = flags == SESSION_PRESENT;
    whole(
        cursor,
        Connack {
            session_present,
            code,
            properties,
        },
    )
}

// The Connect Acknowledge Flags: any but bit 0 breaks W20 (MQTT 5.0, section 3.2.2.1).
fn connack_flags(cursor: &mut Cursor<'_>) -> Result<u8, ReadFault>
    ensures { ReadsField (λ n. n) result (read_field byte connack_flags_objection cursor.old) cursor.new }
{
    let at = cursor.at();
    let flags = cursor.u8()?;
    if flags > SESSION_PRESENT {
        return Err(ReadFault::Broken {
            at,
            rule: PacketRule::W20,
        });
    }
    Ok(flags)
}
