//! Readers of the lists that end a body: filters, and Reason Codes.

ghost use Rattle.std.specs.Prelude.{◌≡◌, Err, MatchResult};
ghost use Rattle.mq_wire.specs.Spellings.{AreBytes};
ghost use Rattle.mq_packet.specs.Formats.{byte, options_objection, are_options};
ghost use Rattle.mq_packet.specs.Decoding.{read_field, codes_on, options_on, filter_on, filters_on};
ghost use Rattle.mq_packet.specs.Reading.{ReadsField, Reads, decode_fault};
ghost use Rattle.mq_packet.specs.Elements.{filter_view, AreRead};

use crate::filters::{Filter, Filters};
use crate::read_fault::ReadFault;
use crate::reading::fields::{reason_code, topic_filter};
use crate::reason_codes::Codes;
use crate::rule::PacketRule;
use mq_wire::Cursor;

// Whether these are Subscription Options (MQTT 5.0, section 3.8.3.1): neither the Maximum QoS, bits
// 1 and 0, nor Retain Handling, bits 5 and 4, is 3, and bits 7 and 6 are 0.
fn are_subscription_options(options: u8) -> bool
    ensures { result ≡ are_options options }
{
    options & 3 != 3 && options & 48 != 48 && options & 192 == 0
}

// The Subscription Options of a filter (MQTT 5.0, section 3.8.3.1).
fn subscription_options(cursor: &mut Cursor<'_>) -> Result<u8, ReadFault>
    ensures { ReadsField (λ n. n) result (read_field byte options_objection cursor.old) cursor.new }
{
    let at = cursor.at();
    let options = cursor.u8()?;
    if !are_subscription_options(options) {
        return Err(ReadFault::Broken {
            at,
            rule: PacketRule::W17,
        });
    }
    Ok(options)
}

// The Subscription Options of a filter, if they are asked for.
fn asked_options(cursor: &mut Cursor<'_>, asks: bool) -> Result<Option<u8>, ReadFault>
    ensures { ReadsField (λ o. o) result (options_on asks cursor.old) cursor.new }
{
    if !asks {
        return Ok(None);
    }
    let options = subscription_options(cursor)?;
    Ok(Some(options))
}

// A filter, with its Subscription Options if they are asked for (MQTT 5.0, sections 3.8.3 and
// 3.10.3).
fn asked_filter<'a>(cursor: &mut Cursor<'a>, asks: bool) -> Result<Filter<'a>, ReadFault>
    ensures { ReadsField filter_view result (filter_on asks cursor.old) cursor.new }
{
    let filter = topic_filter(cursor)?;
    let options = asked_options(cursor, asks)?;
    Ok(Filter { filter, options })
}

/// Checks that all that is left are the filters of a body, at least one, each with options if they
/// are asked for (MQTT 5.0, sections 3.8.3 and 3.10.3).
///
/// # Errors
///
/// The first rule that a field breaks: one of texts, W06, W15, W17; and W16 if there is no filter.
pub fn check_filters(mut cursor: Cursor<'_>, asks: bool) -> Result<(), ReadFault>
    requires { AreBytes cursor.rest }
    ensures { MatchResult result (λ _. AreRead asks cursor.entry) (λ stop. filters_on asks cursor.entry ≡ Err (decode_fault stop)) }
{
    if cursor.is_empty() {
        return Err(ReadFault::Broken {
            at: cursor.at(),
            rule: PacketRule::W16,
        });
    }
    while !cursor.is_empty() {
        asked_filter(&mut cursor, asks)?;
    }
    Ok(())
}

/// Reads the filters that are all that is left, each with options if they are asked for (MQTT 5.0,
/// sections 3.8.3 and 3.10.3).
///
/// # Errors
///
/// Those of `check_filters`.
pub fn filter_list<'a>(cursor: Cursor<'a>, asks: bool) -> Result<Filters<'a>, ReadFault>
    ensures { Reads (λ filters. filters) result (filters_on asks cursor.entry) }
{
    let at = cursor.at();
    let bytes = cursor.rest();
    check_filters(Cursor::starting_at(bytes, at), asks)?;
    Ok(Filters::from_checked(bytes, asks))
}

/// Reads the Reason Codes of a table that are all that is left (MQTT 5.0, sections 3.9.3 and
/// 3.11.3).
///
/// # Errors
///
/// W13 at the first byte that isn't in the table.
pub fn code_list<'a>(cursor: Cursor<'a>, table: &[u8]) -> Result<Codes<'a>, ReadFault>
    ensures { Reads (λ codes. codes) result (codes_on table.now cursor.entry) }
{
    let at = cursor.at();
    let bytes = cursor.rest();
    let mut rest = Cursor::starting_at(bytes, at);
    while !rest.is_empty() {
        reason_code(&mut rest, table)?;
    }
    Ok(Codes::of(bytes))
}
