//! Which SUBACK answers a SUBSCRIBE: one whose first unanswered SUBSCRIBE that is (MQTT 5.0, section
//! 3.8.4).
ghost use Rattle.std.specs.Prelude.{◌≡◌, ◌+◌, ◌≤◌, ◌==◌, ◌&&◌, length, option_map, reverse};
ghost use Rattle.mq_rules.specs.Words.{is_some_and};
ghost use Rattle.mq_rules.specs.Moments.{is_same, newest};
ghost use Rattle.mq_rules.specs.Connections.{begun, number};
ghost use Rattle.mq_plain.specs.Finding.{moment_of};
ghost use Rattle.mq_plain.specs.Lookback.{first_subscribe_after};
ghost use Rattle.mq_plain.specs.Subscribed as subscribed;

use crate::answers::{AsksToSubscribe, GivesSuback};
use crate::earliest::{Found, earliest_on_connection};
use mq_rules::{PacketFields, Seen};

// How many connections have begun.
fn begun_in(events: &[Seen]) -> usize
    ensures exact { result ≡ begun (reverse events.now) }
    ensures most { result ≤ length events.now }
{
    let mut earlier = events;
    let mut begun = 0;
    while let Some((event, rest)) = earlier.split_last() {
        if event.note.is_open() {
            begun += 1;
        }
        earlier = rest;
    }
    begun
}

// The number of the connection of an event that has these events before it.
fn number_of(event: &Seen, before: &[Seen]) -> usize
    ensures { result ≡ number (newest event.now (reverse before.now)) }
{
    if event.note.is_open() {
        return begun_in(before) + 1;
    }
    begun_in(before)
}

/// Whether these are the events before the event that was found.
#[tactic(auto, using(crate::proofs::LookbackLaws::same_place))]
pub fn is_after(found: Found<'_>, before: &[Seen]) -> bool
    ensures { result ≡ (length (reverse before.now) + 1 == length (reverse found.entry.before.now) + 1) }
{
    before.len() == found.before.len()
}

// Whether the first unanswered SUBSCRIBE under an identifier, after these events, is this one.
fn is_first_asked(asking: Found<'_>, identifier: u16, before: &[Seen]) -> bool
    ensures { result ≡ is_some_and (is_same (moment_of asking.entry)) (first_subscribe_after identifier (reverse before.now)) }
{
    let asks = AsksToSubscribe(identifier);
    match earliest_on_connection(&asks, &GivesSuback(identifier), before) {
        Some(first) => is_after(first, asking.before),
        None => false,
    }
}

// Whether an event with these events before it is of the same connection as this one.
fn is_beside(asking: Found<'_>, event: &Seen, before: &[Seen]) -> bool
    ensures { result ≡ (number (newest event.now (reverse before.now)) == number (moment_of asking.entry)) }
{
    number_of(event, before) == number_of(asking.event, asking.before)
}

// The Reason Codes of an event that has these events before it, if it is a SUBACK that answers this
// SUBSCRIBE.
fn codes_at<'a>(asking: Found<'_>, event: &'a Seen, before: &[Seen]) -> Option<&'a [u8]>
    ensures { option_map (λ codes. codes.now) result ≡ subscribed.codes_at (moment_of asking.entry) (newest event.now (reverse before.now)) }
{
    match event.note.sent_fields() {
        Some(PacketFields::Suback { identifier, codes })
            if is_first_asked(asking, *identifier, before) && is_beside(asking, event, before) => {
            Some(codes.as_slice())
        }
        _ => None,
    }
}

/// The Reason Codes of the SUBACK that answers a SUBSCRIBE, if it was sent before these events end;
/// none if not.
pub fn codes_answering<'a>(asking: Found<'_>, before: &'a [Seen]) -> &'a [u8]
    ensures { result.now ≡ subscribed.codes_after (moment_of asking.entry) (reverse before.now) }
{
    match given_codes(asking, before) {
        Some(codes) => codes,
        None => &[],
    }
}

// The same, if it was sent.
fn given_codes<'a>(asking: Found<'_>, before: &'a [Seen]) -> Option<&'a [u8]>
    ensures { option_map (λ codes. codes.now) result ≡ subscribed.codes_given (moment_of asking.entry) (reverse before.now) }
{
    let mut earlier = before;
    let mut found = None;
    while let Some((event, rest)) = earlier.split_last() {
        found = codes_at(asking, event, rest).or(found);
        earlier = rest;
    }
    found
}
