//! B06 and B07: what an UNSUBACK says of filters (MQTT 5.0, sections 3.10.4 and 3.11.3).
ghost use Rattle.std.specs.Prelude.{◌≡◌, ◌==◌, ◌&&◌, not, option_map, reverse, slice_get};
ghost use Rattle.mq_rules.specs.Words.{is_some_and};
ghost use Rattle.mq_rules.specs.declared.note.Seen.{Seen as TheSeen};
ghost use Rattle.mq_rules.specs.Notes.{received_unsubscription};
ghost use Rattle.mq_rules.specs.Moments.{newest};
ghost use Rattle.mq_rules.specs.FurtherSubscriptions.{breaks_B06, breaks_B07, has_filter as is_among, is_clear_before, is_denied};
ghost use Rattle.mq_plain.specs.Subscribed as subscribed;

use crate::answers::{AsksToUnsubscribe, GivesUnsuback};
use crate::earliest::earliest_on_connection;
use crate::further::subscribed::{has_filter, has_stood, was_subscribed};
use crate::judging::SessionStatement;
use crate::session::{begins_at, fate_before};
use mq_rules::{Fate, Memory, Note, NotedFilter, PacketFields, Role, Rule, Seen};
use std::alloc::Global;

/// The Reason Code that says that a subscription was deleted: Success.
const DELETED: u8 = 0x00;

/// The Reason Code that says that there was none: No subscription existed.
const DENIED: u8 = 0x11;

/// An UNSUBSCRIBE, and how it is answered.
#[derive(Clone, Copy)]
struct Answered<'a> {
    /// The events before it, the oldest first.
    before: &'a [Seen],
    /// Its filters.
    filters: &'a [NotedFilter],
    /// The Reason Codes of the UNSUBACK.
    codes: &'a [u8],
}

/// Whether each SUBSCRIBE and UNSUBSCRIBE since the current session began could be read, if the
/// latest connection is accepted with this fate. Void connections count too: what a server did with
/// their bytes nobody can tell.
pub fn is_clear(role: Role, fate: Fate, before: &[Seen]) -> bool
    ensures { (e : TheSeen) → result ≡ is_clear_before role fate (newest e (reverse before.now)) }
{
    let mut earlier = before;
    let mut fate = Some(fate);
    while let Some((event, rest)) = earlier.split_last() {
        if event.note.receives_unclear() {
            return false;
        }
        if begins_at(fate, &event.note) {
            return true;
        }
        fate = fate_before(role, fate, &event.note, rest);
        earlier = rest;
    }
    true
}

// The UNSUBSCRIBE that an event answers: the first unanswered one of its connection.
fn answered_by<'a>(event: &'a Seen, before: &'a [Seen]) -> Option<Answered<'a>>
    ensures { option_map subscribed.told_of result ≡ subscribed.told_after event.now.note (reverse before.now) }
{
    match event.note.sent_fields() {
        Some(PacketFields::Unsuback { identifier, codes }) => {
            answered_under(*identifier, codes.as_slice(), before)
        }
        _ => None,
    }
}

// The first unanswered UNSUBSCRIBE under an identifier, answered with these Reason Codes.
fn answered_under<'a>(identifier: u16, codes: &'a [u8], before: &'a [Seen]) -> Option<Answered<'a>>
    ensures { option_map subscribed.told_of result ≡ subscribed.told_under identifier codes.now (reverse before.now) }
{
    let asks = AsksToUnsubscribe(identifier);
    match earliest_on_connection(&asks, &GivesUnsuback(identifier), before) {
        Some(first) => answered_with(&first.event.note, codes, first.before),
        None => None,
    }
}

// An event that has these events before it, answered with these Reason Codes, if it is an
// UNSUBSCRIBE that was received.
fn answered_with<'a>(note: &'a Note, codes: &'a [u8], before: &'a [Seen]) -> Option<Answered<'a>>
    ensures { option_map subscribed.told_of result ≡ option_map (subscribed.told_with codes.now (reverse before.now)) (received_unsubscription note.now) }
{
    match note.received_fields() {
        Some(PacketFields::Unsubscribe { filters, .. }) => Some(Answered {
            before,
            filters: filters.as_slice(),
            codes,
        }),
        _ => None,
    }
}

// ---- B06

// Whether the Reason Code at this place says that there was no subscription.
fn is_denied_at(codes: &[u8], place: usize) -> bool
    ensures { result ≡ is_some_and is_denied (slice_get codes.now place) }
{
    match codes.get(place) {
        Some(code) => *code == DENIED,
        None => false,
    }
}

// Whether a subscription stood when an UNSUBSCRIBE with these events before it, `asked`, was
// received, and nothing else asked about its filter since; and the filter isn't among those that
// come before it there.
fn stood_first(
    role: Role,
    fate: Fate,
    filter: &str,
    others: &[NotedFilter],
    asked: &[Seen],
    before: &[Seen],
) -> bool
    ensures { result ≡ (subscribed.stood_after role fate (reverse before.now) (reverse asked.now) filter.now && not (is_among filter.now others.now)) }
{
    has_stood(role, fate, filter, asked, before) && !has_filter(filter, others)
}

// Whether one of these Reason Codes denies such a subscription. The last ones are looked at first.
fn some_denied(role: Role, fate: Fate, told: Answered<'_>, before: &[Seen]) -> bool
    ensures { result ≡ subscribed.some_denied (subscribed.stood_after role fate (reverse before.now) (reverse told.entry.before.now)) told.entry.filters.now told.entry.codes.now }
{
    let mut left = told.filters;
    while let Some((last, others)) = left.split_last() {
        let filter = last.filter.as_str();
        if is_denied_at(told.codes, others.len())
            && stood_first(role, fate, filter, others, told.before, before)
        {
            return true;
        }
        left = others;
    }
    false
}

// Whether an event denies a subscription that stood when it was to be deleted.
fn denies_subscribed(role: Role, fate: Fate, event: &Seen, before: &[Seen]) -> bool
    ensures { result ≡ is_some_and (λ t. subscribed.some_denied (subscribed.stood_after role fate (reverse before.now) t.past) t.filters t.codes) (subscribed.told_after event.now.note (reverse before.now)) }
{
    match answered_by(event, before) {
        Some(told) => some_denied(role, fate, told, before),
        None => false,
    }
}

// Whether an event denies such a subscription, in a session of which all could be read.
fn denies_clearly(role: Role, fate: Fate, event: &Seen, before: &[Seen]) -> bool
    ensures { result ≡ breaks_B06 role fate (newest event.now (reverse before.now)) }
{
    is_clear(role, fate, before) && denies_subscribed(role, fate, event, before)
}

/// B06: no UNSUBACK says of a subscription that it doesn't exist.
pub struct KnownSubscriptions;

impl SessionStatement for KnownSubscriptions {
    ghost use Rattle.std.specs.Prelude.{refl};
    ghost use Rattle.mq_rules.specs.declared.rule.Rule.TheVariants.{B06};
    ghost use Rattle.mq_rules.specs.FurtherSubscriptions.{breaks_B06};

    ghost judged = { B06 };

    ghost breaks = { breaks_B06 };

    fn rule() -> Rule {
        Rule::B06
    }

    fn is_broken(
        _alloc: Global,
        role: Role,
        fate: Fate,
        event: &Seen,
        before: &[Seen],
    ) -> Result<bool, Memory> {
        Ok(denies_clearly(role, fate, event, before))
    }

    ghost says = { λ role. refl };
}

// ---- B07

// Whether a Reason Code says that a filter was deleted which was never subscribed before these
// events end.
fn is_unfounded(role: Role, fate: Fate, filter: &str, code: u8, before: &[Seen]) -> bool
    ensures { result ≡ ((code == 0) && not (subscribed.was_subscribed_after role fate (reverse before.now) filter.now)) }
{
    code == DELETED && !was_subscribed(role, fate, filter, before)
}

// Whether some of these Reason Codes says so of its filter.
fn some_unfounded(
    role: Role,
    fate: Fate,
    filters: &[NotedFilter],
    codes: &[u8],
    before: &[Seen],
) -> bool
    ensures { result ≡ subscribed.some_unfounded (subscribed.was_subscribed_after role fate (reverse before.now)) filters.now codes.now }
{
    let mut filters = filters;
    let mut codes = codes;
    while let Some((filter, next_filters)) = filters.split_first() {
        let Some((code, next_codes)) = codes.split_first() else {
            return false;
        };
        if is_unfounded(role, fate, filter.filter.as_str(), *code, before) {
            return true;
        }
        filters = next_filters;
        codes = next_codes;
    }
    false
}

// Whether an event says that a filter was deleted which was never subscribed.
fn deletes_unsubscribed(role: Role, fate: Fate, event: &Seen, before: &[Seen]) -> bool
    ensures { result ≡ is_some_and (λ t. subscribed.some_unfounded (subscribed.was_subscribed_after role fate (reverse before.now)) t.filters t.codes) (subscribed.told_after event.now.note (reverse before.now)) }
{
    match answered_by(event, before) {
        Some(told) => some_unfounded(role, fate, told.filters, told.codes, before),
        None => false,
    }
}

// Whether an event says so, in a session of which all could be read.
fn deletes_clearly(role: Role, fate: Fate, event: &Seen, before: &[Seen]) -> bool
    ensures { result ≡ breaks_B07 role fate (newest event.now (reverse before.now)) }
{
    is_clear(role, fate, before) && deletes_unsubscribed(role, fate, event, before)
}

/// B07: no UNSUBACK says that a filter was deleted which was never subscribed.
pub struct FoundedDeletions;

impl SessionStatement for FoundedDeletions {
    ghost use Rattle.std.specs.Prelude.{refl};
    ghost use Rattle.mq_rules.specs.declared.rule.Rule.TheVariants.{B07};
    ghost use Rattle.mq_rules.specs.FurtherSubscriptions.{breaks_B07};

    ghost judged = { B07 };

    ghost breaks = { breaks_B07 };

    fn rule() -> Rule {
        Rule::B07
    }

    fn is_broken(
        _alloc: Global,
        role: Role,
        fate: Fate,
        event: &Seen,
        before: &[Seen],
    ) -> Result<bool, Memory> {
        Ok(deletes_clearly(role, fate, event, before))
    }

    ghost says = { λ role. refl };
}
