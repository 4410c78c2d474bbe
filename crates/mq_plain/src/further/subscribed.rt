//! Whether a filter is subscribed: what was asked of it last, and what the SUBACK said (MQTT 5.0,
//! sections 3.8.4, 3.9.3 and 3.10.4).
ghost use Rattle.std.specs.Prelude.{◌≡◌, ◌&&◌, reverse};
ghost use Rattle.mq_rules.specs.Words.{is_some_and};
ghost use Rattle.mq_rules.specs.FurtherSubscriptions as subscriptions;
ghost use Rattle.mq_plain.specs.Finding.{moment_in, moment_of};
ghost use Rattle.mq_plain.specs.Subscribed as subscribed;

use crate::deliveries::{REFUSING, next_code};
use crate::earliest::{Found, latest_in_session};
use crate::further::answering::{codes_answering, is_after};
use crate::further::moments::{MomentTest, some_moment_in_session};
use crate::lookback::NoteTest;
use mq_rules::{Fate, Note, NotedFilter, PacketFields, Role, Seen};

// ---- what was asked of a filter

/// A SUBSCRIBE or an UNSUBSCRIBE that is received and has a filter.
#[derive(Drop)]
struct AsksAbout<'a>(&'a str);

impl NoteTest for AsksAbout<'_> {
    ghost use Rattle.mq_plain.specs.Subscribed.{has_asked};

    ghost test = { λ t. has_asked t.0.now };

    fn passes(&self, note: &Note) -> bool {
        match note.received_fields() {
            Some(PacketFields::Subscribe { filters, .. }) => {
                has_filter(self.0, filters.as_slice())
            }
            Some(PacketFields::Unsubscribe { filters, .. }) => {
                has_filter(self.0, filters.as_slice())
            }
            _ => false,
        }
    }
}

/// Whether the filter is one of these.
pub fn has_filter(filter: &str, asked: &[NotedFilter]) -> bool
    ensures { result ≡ subscriptions.has_filter filter.now asked.now }
{
    asked.iter().any(|other| filter == other.filter.as_str())
}

// The last SUBSCRIBE or UNSUBSCRIBE that has the filter, in the current session after these events,
// if the latest connection is accepted with this fate.
fn last_about<'a>(role: Role, fate: Fate, filter: &str, before: &'a [Seen]) -> Option<Found<'a>>
    ensures { moment_in result ≡ subscribed.last_about_after role fate (reverse before.now) filter.now }
{
    latest_in_session(role, Some(fate), &AsksAbout(filter), before)
}

// Whether that one comes after the events `asked`, and is there.
fn is_last_about(role: Role, fate: Fate, filter: &str, asked: &[Seen], before: &[Seen]) -> bool
    ensures { result ≡ is_some_and (subscribed.comes_after (reverse asked.now)) (subscribed.last_about_after role fate (reverse before.now) filter.now) }
{
    match last_about(role, fate, filter, before) {
        Some(last) => is_after(last, asked),
        None => false,
    }
}

// ---- what the SUBACK said

// The Reason Code at the last place of the filter among these that has one.
fn last_code(filter: &str, asked: &[NotedFilter], codes: &[u8]) -> Option<u8>
    ensures { result ≡ subscriptions.last_code filter.now asked.now codes.now }
{
    let mut asked = asked;
    let mut codes = codes;
    let mut last = None;
    while let Some((other, next_asked)) = asked.split_first() {
        let Some((code, next_codes)) = codes.split_first() else {
            return last;
        };
        if filter == other.filter.as_str() {
            last = Some(*code);
        }
        asked = next_asked;
        codes = next_codes;
    }
    last
}

// Whether the last of these Reason Codes that the filter has grants it.
fn grants_last(filter: &str, asked: &[NotedFilter], codes: &[u8]) -> bool
    ensures { result ≡ subscribed.grants_last filter.now asked.now codes.now }
{
    match last_code(filter, asked, codes) {
        Some(code) => code < REFUSING,
        None => false,
    }
}

// Whether an event is a SUBSCRIBE that was received, and is answered before these events end so
// that the filter is granted.
fn is_granted(filter: &str, asking: Found<'_>, before: &[Seen]) -> bool
    ensures { result ≡ subscribed.is_granted_after filter.now (reverse before.now) (moment_of asking.entry) }
{
    match asking.event.note.received_fields() {
        Some(PacketFields::Subscribe { filters, .. }) => grants_last(
            filter,
            filters.as_slice(),
            codes_answering(asking, before),
        ),
        _ => false,
    }
}

// Whether after these events a subscription to the filter stands, if the latest connection is
// accepted with this fate: it was granted, and nothing was asked of it since.
fn is_subscribed(role: Role, fate: Fate, filter: &str, before: &[Seen]) -> bool
    ensures { result ≡ subscribed.is_subscribed_after role fate (reverse before.now) filter.now }
{
    match last_about(role, fate, filter, before) {
        Some(asking) => is_granted(filter, asking, before),
        None => false,
    }
}

/// Whether a subscription to the filter stood after the events `asked`, and nothing but what comes
/// next asked about it before these events end, if the latest connection is accepted with this
/// fate.
pub fn has_stood(role: Role, fate: Fate, filter: &str, asked: &[Seen], before: &[Seen]) -> bool
    ensures { result ≡ subscribed.stood_after role fate (reverse before.now) (reverse asked.now) filter.now }
{
    is_subscribed(role, fate, filter, asked) && is_last_about(role, fate, filter, asked, before)
}

// ---- what was ever asked

/// The SUBSCRIBEs that have a filter, and whose answer, before these events end, doesn't refuse it.
#[derive(Drop)]
struct Unrefused<'a> {
    filter: &'a str,
    before: &'a [Seen],
}

impl MomentTest for Unrefused<'_> {
    ghost use Rattle.std.specs.Prelude.{reverse};
    ghost use Rattle.mq_plain.specs.Subscribed.{is_unrefused_after};

    ghost test = { λ t. is_unrefused_after t.filter.now (reverse t.before.now) };

    fn passes(&self, event: &Seen, before: &[Seen]) -> bool {
        is_unrefused(self.filter, Found { event, before }, self.before)
    }
}

// Whether an event is such a SUBSCRIBE.
fn is_unrefused(filter: &str, asking: Found<'_>, before: &[Seen]) -> bool
    ensures { result ≡ subscribed.is_unrefused_after filter.now (reverse before.now) (moment_of asking.entry) }
{
    match asking.event.note.received_fields() {
        Some(PacketFields::Subscribe { filters, .. }) => any_granted(
            filter,
            filters.as_slice(),
            codes_answering(asking, before),
        ),
        _ => false,
    }
}

// Whether one of these filters is this one, and its Reason Code, if it has one, doesn't refuse it.
fn any_granted(filter: &str, asked: &[NotedFilter], codes: &[u8]) -> bool
    ensures { result ≡ subscribed.any_granted filter.now asked.now codes.now }
{
    let mut asked = asked;
    let mut codes = codes;
    while let Some((other, next_asked)) = asked.split_first() {
        let (code, next_codes) = next_code(codes);
        if is_granted_with(filter, other, code) {
            return true;
        }
        asked = next_asked;
        codes = next_codes;
    }
    false
}

// Whether a filter that was asked for is this one, and this Reason Code, if there is one, doesn't
// refuse it.
fn is_granted_with(filter: &str, asked: &NotedFilter, code: Option<u8>) -> bool
    ensures { result ≡ subscribed.is_granted_with filter.now asked.now code }
{
    match code {
        Some(code) => code < REFUSING && filter == asked.filter.as_str(),
        None => filter == asked.filter.as_str(),
    }
}

/// Whether before these events end some SUBSCRIBE of the session has the filter, and no answer
/// refuses it, if the latest connection is accepted with this fate.
pub fn was_subscribed(role: Role, fate: Fate, filter: &str, before: &[Seen]) -> bool
    ensures { result ≡ subscribed.was_subscribed_after role fate (reverse before.now) filter.now }
{
    let subscribes = Unrefused { filter, before };
    some_moment_in_session(role, Some(fate), &subscribes, before)
}
