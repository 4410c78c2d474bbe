//! Reading SUBSCRIBE, UNSUBSCRIBE, and their answers SUBACK and UNSUBACK (MQTT 5.0, sections 3.8 to
//! 3.11).

ghost use Rattle.std.specs.Prelude.{◌≡◌};
ghost use Rattle.mq_packet.specs.Entries.{request, answer};
ghost use Rattle.mq_packet.specs.Formats.{identified, request_format, answer_format};
ghost use Rattle.mq_packet.specs.Decoding.{read};
ghost use Rattle.mq_packet.specs.Reading.{Reads, TakesPart};

use crate::packet::{Answer, Request, RequestKind};
use crate::read_fault::ReadFault;
use crate::reading::fields::{packet_identifier, property_list};
use crate::reading::lists::{code_list, filter_list};
use mq_props::{Place, Props};
use mq_wire::Cursor;

// The Packet Identifier and the property list of this place, with which such a packet begins.
#[tactic(auto, unfolding(crate::specs::Formats::identified))]
fn read_identified<'a>(cursor: &mut Cursor<'a>, place: Place) -> Result<(u16, Props<'a>), ReadFault>
    ensures { TakesPart (λ start. start) result (identified place) cursor.old cursor.new }
{
    let identifier = packet_identifier(cursor)?;
    let properties = property_list(cursor, place)?;
    Ok((identifier, properties))
}

/// Reads a SUBSCRIBE or UNSUBSCRIBE (MQTT 5.0, sections 3.8 and 3.10) from all that is left.
///
/// # Errors
///
/// The first rule that a field breaks: a rule of texts, W06, W09, W15, W17, one of its property
/// list; and W16 if it has no filter.
#[inline(never)]
pub fn read_request<'a>(mut cursor: Cursor<'a>, kind: RequestKind) -> Result<Request<'a>, ReadFault>
    ensures { Reads (λ p. request kind p.identifier p.properties p.filters) result (read (request_format kind) cursor.entry) }
{
    let (identifier, properties) = read_identified(&mut cursor, kind.place())?;
    let filters = filter_list(cursor, kind.has_options())?;
    Ok(Request {
        identifier,
        properties,
        filters,
    })
}

/// Reads a SUBACK or UNSUBACK (MQTT 5.0, sections 3.9 and 3.11) from all that is left.
///
/// # Errors
///
/// The first rule that a field breaks: W06, W09, W13, or one of its property list.
#[inline(never)]
pub fn read_answer<'a>(mut cursor: Cursor<'a>, kind: RequestKind) -> Result<Answer<'a>, ReadFault>
    ensures { Reads (λ p. answer kind p.identifier p.properties p.codes) result (read (answer_format kind) cursor.entry) }
{
    let (identifier, properties) = read_identified(&mut cursor, kind.answer_place())?;
    let codes = code_list(cursor, kind.answer_codes())?;
    Ok(Answer {
        identifier,
        properties,
        codes,
    })
}
