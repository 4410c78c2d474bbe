//! Readers of fields: first a field's spelling is checked, then its value.

ghost use Rattle.std.specs.Prelude.{◌≡◌, IfOk};
ghost use Rattle.mq_packet.specs.Entries.{Entry, listed};
ghost use Rattle.mq_props.specs.Listed.{Listed};
ghost use Rattle.mq_packet.specs.Formats.{last_properties, byte, two_bytes, text, binary, properties, any_value, name_objection, version_objection, code_objection, identifier_objection, topic_objection, filter_objection, is_filter};
ghost use Rattle.mq_packet.specs.Decoding.{read, read_field, ended};
ghost use Rattle.mq_packet.specs.Reading.{ReadsField, Reads};

use crate::codes::is_code;
use crate::protocol::{PROTOCOL_NAME, PROTOCOL_VERSION};
use crate::read_fault::ReadFault;
use crate::rule::PacketRule;
use mq_props::{Place, Props};
use mq_topic::{check_filter, check_name};
use mq_wire::Cursor;

/// The Reason Code Success (MQTT 5.0, section 2.4).
pub const SUCCESS: u8 = 0x00;

/// The packet, if nothing is left over (MQTT 5.0, section 2.1.4).
///
/// # Errors
///
/// W06 at the first byte that is left.
pub fn whole<P: Drop>(cursor: Cursor<'_>, packet: P) -> Result<P, ReadFault>
    ensures same { IfOk result (λ read. read ≡ packet) }
    ensures ended { (see : P → Entry) → Reads see result (ended (see packet) cursor.entry) }
{
    if !cursor.is_empty() {
        return Err(ReadFault::Broken {
            at: cursor.at(),
            rule: PacketRule::W06,
        });
    }
    Ok(packet)
}

/// Reads the protocol's name, `MQTT` (MQTT 5.0, section 3.1.2.1).
///
/// # Errors
///
/// A rule of texts, and W18 if it is another name.
pub fn protocol_name<'a>(cursor: &mut Cursor<'a>) -> Result<&'a str, ReadFault>
    ensures { ReadsField (λ name. name.now) result (read_field text name_objection cursor.old) cursor.new }
{
    let at = cursor.at();
    let name = cursor.text()?;
    if name != PROTOCOL_NAME {
        return Err(ReadFault::Broken {
            at,
            rule: PacketRule::W18,
        });
    }
    Ok(name)
}

/// Reads the protocol's version, 5 (MQTT 5.0, section 3.1.2.2).
///
/// # Errors
///
/// W06 if no byte is left, and the version if it isn't 5.
pub fn protocol_version(cursor: &mut Cursor<'_>) -> Result<u8, ReadFault>
    ensures { ReadsField (λ n. n) result (read_field byte version_objection cursor.old) cursor.new }
{
    let version = cursor.u8()?;
    if version != PROTOCOL_VERSION {
        return Err(ReadFault::OtherVersion(version));
    }
    Ok(version)
}

/// Reads a Packet Identifier: 1 to 65,535 (MQTT 5.0, section 2.2.1).
///
/// # Errors
///
/// W06 if fewer than two bytes are left, and W09 if it is 0.
#[inline(always)]
pub fn packet_identifier(cursor: &mut Cursor<'_>) -> Result<u16, ReadFault>
    ensures { ReadsField (λ n. n) result (read_field two_bytes identifier_objection cursor.old) cursor.new }
{
    let at = cursor.at();
    let identifier = cursor.u16()?;
    if identifier == 0 {
        return Err(ReadFault::Broken {
            at,
            rule: PacketRule::W09,
        });
    }
    Ok(identifier)
}

/// Reads a Reason Code of a packet's table (MQTT 5.0, section 2.4).
///
/// # Errors
///
/// W06 if no byte is left, and W13 if it isn't in the table.
pub fn reason_code(cursor: &mut Cursor<'_>, table: &[u8]) -> Result<u8, ReadFault>
    ensures { ReadsField (λ n. n) result (read_field byte (code_objection table.now) cursor.old) cursor.new }
{
    let at = cursor.at();
    let code = cursor.u8()?;
    if !is_code(table, code) {
        return Err(ReadFault::Broken {
            at,
            rule: PacketRule::W13,
        });
    }
    Ok(code)
}

/// Reads the property list of a place (MQTT 5.0, section 2.2.2).
///
/// # Errors
///
/// The rule that its first invalid field breaks, at that field: W03 to W06, W10 to W12, W14.
#[inline(always)]
pub fn property_list<'a>(cursor: &mut Cursor<'a>, place: Place) -> Result<Props<'a>, ReadFault>
    ensures list { ReadsField (λ list. list.items) result (read_field (properties place) any_value cursor.old) cursor.new }
    ensures place { IfOk result (λ list. list ≡ listed place list.items) }
{
    let list = Props::read(cursor, place)?;
    Ok(list)
}

/// Reads the property list of a place, if anything is left, and nothing after it (MQTT 5.0,
/// sections 3.4.2 and 3.14.2).
///
/// # Errors
///
/// The rule that its first invalid field breaks, at that field, and W06 at a byte after the list.
pub fn last_properties<'a>(mut cursor: Cursor<'a>, place: Place) -> Result<Props<'a>, ReadFault>
    ensures { (packet : Listed → Entry) → Reads packet result (read (last_properties place packet) cursor.entry) }
{
    if cursor.is_empty() {
        return Ok(Props::empty(place));
    }
    let list = property_list(&mut cursor, place)?;
    if !cursor.is_empty() {
        return Err(ReadFault::Broken {
            at: cursor.at(),
            rule: PacketRule::W06,
        });
    }
    Ok(list)
}

/// Reads a Topic Name (MQTT 5.0, section 3.3.2.1), which may be empty.
///
/// # Errors
///
/// A rule of texts, and W14 if it has a wildcard.
#[inline(always)]
#[tactic(auto, using(crate::proofs::FieldLaws::plain_topic))]
pub fn topic_name<'a>(cursor: &mut Cursor<'a>) -> Result<&'a str, ReadFault>
    ensures { ReadsField (λ topic. topic.now) result (read_field text topic_objection cursor.old) cursor.new }
{
    match cursor.plain_text() {
        Some(topic) => Ok(topic),
        None => any_topic_name(cursor),
    }
}

// The same for any bytes. It is a function of its own, so that the call for a plain Topic Name, the
// usual case, is inlined.
#[inline(never)]
fn any_topic_name<'a>(cursor: &mut Cursor<'a>) -> Result<&'a str, ReadFault>
    ensures { ReadsField (λ topic. topic.now) result (read_field text topic_objection cursor.old) cursor.new }
{
    let at = cursor.at();
    let topic = cursor.text()?;
    if !check_name(topic) {
        return Err(ReadFault::Broken {
            at,
            rule: PacketRule::W14,
        });
    }
    Ok(topic)
}

/// Whether a filter is valid (MQTT 5.0, section 4.7.1).
pub fn is_topic_filter(filter: &str) -> bool
    ensures { result ≡ is_filter filter.now }
{
    check_filter(filter).is_ok()
}

/// Reads a Topic Filter (MQTT 5.0, section 4.7.1).
///
/// # Errors
///
/// A rule of texts, and W15 if it is invalid.
pub fn topic_filter<'a>(cursor: &mut Cursor<'a>) -> Result<&'a str, ReadFault>
    ensures { ReadsField (λ filter. filter.now) result (read_field text filter_objection cursor.old) cursor.new }
{
    let at = cursor.at();
    let filter = cursor.text()?;
    if !is_topic_filter(filter) {
        return Err(ReadFault::Broken {
            at,
            rule: PacketRule::W15,
        });
    }
    Ok(filter)
}
