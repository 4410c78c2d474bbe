//! The reader of CONNECT (MQTT 5.0, section 3.1).

ghost use Rattle.std.specs.Prelude.{◌≡◌, bit_and};
ghost use Rattle.std.specs.Option.{option_map};
ghost use Rattle.mq_packet.specs.Entries.{connect};
ghost use Rattle.mq_packet.specs.Formats.{byte, text, binary, connect_flags_objection, are_connect_flags, has_bits, qos_of, field_if, will_if, connect_format};
ghost use Rattle.mq_packet.specs.Decoding.{read, read_field};
ghost use Rattle.mq_packet.specs.Reading.{ReadsField, TakesPart, Reads, will_view, connect_view};

use super::fields::{property_list, protocol_name, protocol_version, whole};
use crate::packet::{Connect, Qos, Will};
use crate::protocol::{
    CLEAN_START, PASSWORD, RESERVED, USER_NAME, WILL, WILL_QOS, WILL_QOS_ONE, WILL_RETAIN,
};
use crate::read_fault::ReadFault;
use crate::rule::PacketRule;
use mq_props::Place;
use mq_wire::Cursor;

// Whether these may be Connect Flags.
fn are_flags(flags: u8) -> bool
    ensures { result ≡ are_connect_flags flags }
{
    flags & RESERVED == 0
        && flags & WILL_QOS != WILL_QOS
        && (flags & WILL != 0 || flags & (WILL_QOS | WILL_RETAIN) == 0)
}

// The Connect Flags, unless they break W19 (MQTT 5.0, section 3.1.2.3).
fn connect_flags(cursor: &mut Cursor<'_>) -> Result<u8, ReadFault>
    ensures { ReadsField (λ n. n) result (read_field byte connect_flags_objection cursor.old) cursor.new }
{
    let at = cursor.at();
    let flags = cursor.u8()?;
    if !are_flags(flags) {
        return Err(ReadFault::Broken {
            at,
            rule: PacketRule::W19,
        });
    }
    Ok(flags)
}

// The Will QoS that the Connect Flags name.
fn will_qos(flags: u8) -> Qos
    ensures { result ≡ qos_of 8 (bit_and flags 24) }
{
    match flags & WILL_QOS {
        0 => Qos::AtMostOnce,
        WILL_QOS_ONE => Qos::AtLeastOnce,
        _ => Qos::ExactlyOnce,
    }
}

// The Will (MQTT 5.0, sections 3.1.3.2 to 3.1.3.4), if its flag is set.
fn read_will<'a>(cursor: &mut Cursor<'a>, flags: u8) -> Result<Option<Will<'a>>, ReadFault>
    ensures { TakesPart (option_map will_view) result (will_if (has_bits 4 flags) flags) cursor.old cursor.new }
{
    if flags & WILL == 0 {
        return Ok(None);
    }
    let properties = property_list(cursor, Place::Will)?;
    let topic = cursor.text()?;
    let payload = cursor.binary()?;
    Ok(Some(Will {
        qos: will_qos(flags),
        retain: flags & WILL_RETAIN != 0,
        properties,
        topic,
        payload,
    }))
}

// The User Name (MQTT 5.0, section 3.1.3.5), if its flag is set.
fn read_user_name<'a>(cursor: &mut Cursor<'a>, flags: u8) -> Result<Option<&'a str>, ReadFault>
    ensures { TakesPart (option_map (λ name. name.now)) result (field_if (has_bits 128 flags) text) cursor.old cursor.new }
{
    if flags & USER_NAME == 0 {
        return Ok(None);
    }
    let user_name = cursor.text()?;
    Ok(Some(user_name))
}

// The Password (MQTT 5.0, section 3.1.3.6), if its flag is set.
fn read_password<'a>(cursor: &mut Cursor<'a>, flags: u8) -> Result<Option<&'a [u8]>, ReadFault>
    ensures { TakesPart (option_map (λ bytes. bytes.now)) result (field_if (has_bits 64 flags) binary) cursor.old cursor.new }
{
    if flags & PASSWORD == 0 {
        return Ok(None);
    }
    let password = cursor.binary()?;
    Ok(Some(password))
}

/// Reads a CONNECT (MQTT 5.0, section 3.1) from all that is left.
///
/// # Errors
///
/// The first rule that a field breaks: W06, W18, W19, one of a text or of a property list; or the
/// version, if it isn't 5.
#[inline(never)]
pub fn read_connect<'a>(mut cursor: Cursor<'a>) -> Result<Connect<'a>, ReadFault>
    ensures { Reads (λ p. connect (connect_view p)) result (read connect_format cursor.entry) }
{
    protocol_name(&mut cursor)?;
    protocol_version(&mut cursor)?;
    let flags = connect_flags(&mut cursor)?;
    let keep_alive = cursor.u16()?;
    let properties = property_list(&mut cursor, Place::Connect)?;
    let client_identifier = cursor.text()?;
    let will = read_will(&mut cursor, flags)?;
    let user_name = read_user_name(&mut cursor, flags)?;
    let password = read_password(&mut cursor, flags)?;
    whole(
        cursor,
        Connect {
            clean_start: flags & CLEAN_START != 0,
            keep_alive,
            properties,
            client_identifier,
            will,
            user_name,
            password,
        },
    )
}
