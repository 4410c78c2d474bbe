//! B05: what a SUBACK grants (MQTT 5.0, section 3.9.3).
ghost use Rattle.std.specs.Prelude.{◌≡◌, ◌&&◌, nat_lt, not, reverse};
ghost use Rattle.mq_rules.specs.Words.{is_some_and};
ghost use Rattle.mq_rules.specs.Notes.{received_subscription, refuses};
ghost use Rattle.mq_rules.specs.Moments.{newest, note};
ghost use Rattle.mq_rules.specs.Subscriptions.{breaks_B05, requested, requested_each, some_granted};
ghost use Rattle.mq_plain.specs.Lookback.{first_subscribe_after};

use crate::answers::{AsksToSubscribe, GivesSuback};
use crate::deliveries::REFUSING;
use crate::earliest::earliest_on_connection;
use crate::judging::SessionStatement;
use mq_rules::{Fate, Memory, Note, NotedFilter, PacketFields, Role, Rule, Seen};
use std::alloc::Global;

// Whether an event is a SUBACK that grants a filter of its first unanswered SUBSCRIBE more than
// that asks for.
#[tactic(auto, unfolding(mq_rules::specs::Subscriptions::breaks_B05))]
fn grants_above(event: &Seen, before: &[Seen]) -> bool
    ensures { result ≡ breaks_B05 (newest event.now (reverse before.now)) }
{
    match event.note.sent_fields() {
        Some(PacketFields::Suback { identifier, codes }) => {
            is_above_first(*identifier, codes.as_slice(), before)
        }
        _ => false,
    }
}

// Whether these Reason Codes grant a filter of the first unanswered SUBSCRIBE under an identifier
// more than that asks for.
fn is_above_first(identifier: u16, codes: &[u8], before: &[Seen]) -> bool
    ensures { result ≡ is_some_and (λ j. is_some_and (λ s. some_granted nat_lt (requested_each s.filters) codes.now) (received_subscription (note j))) (first_subscribe_after identifier (reverse before.now)) }
{
    let asks = AsksToSubscribe(identifier);
    match earliest_on_connection(&asks, &GivesSuback(identifier), before) {
        Some(first) => asks_for_less(&first.event.note, codes),
        None => false,
    }
}

// Whether it is a SUBSCRIBE that was received, and asks less for a filter than these Reason Codes
// grant it.
fn asks_for_less(note: &Note, codes: &[u8]) -> bool
    ensures { result ≡ is_some_and (λ s. some_granted nat_lt (requested_each s.filters) codes.now) (received_subscription note.now) }
{
    match note.received_fields() {
        Some(PacketFields::Subscribe { filters, .. }) => any_above(filters.as_slice(), codes),
        _ => false,
    }
}

// Whether one of these filters is granted more than it asks for.
fn any_above(filters: &[NotedFilter], codes: &[u8]) -> bool
    ensures { result ≡ some_granted nat_lt (requested_each filters.now) codes.now }
{
    let mut filters = filters;
    let mut codes = codes;
    while let Some((filter, next_filters)) = filters.split_first() {
        let Some((code, next_codes)) = codes.split_first() else {
            return false;
        };
        if is_above(filter, *code) {
            return true;
        }
        filters = next_filters;
        codes = next_codes;
    }
    false
}

// Whether a Reason Code grants a filter more than it asks for.
fn is_above(filter: &NotedFilter, code: u8) -> bool
    ensures { result ≡ (not (refuses code) && nat_lt (requested filter.now) code) }
{
    code < REFUSING && filter.options % 4 < code
}

/// B05: a SUBACK grants no more than was asked for.
pub struct AskedQos;

impl SessionStatement for AskedQos {
    ghost use Rattle.std.specs.Prelude.{refl};
    ghost use Rattle.mq_rules.specs.declared.rule.Rule.TheVariants.{B05};
    ghost use Rattle.mq_rules.specs.Subscriptions.{breaks_B05};

    ghost judged = { B05 };

    ghost breaks = { λ role f. breaks_B05 };

    fn rule() -> Rule {
        Rule::B05
    }

    fn is_broken(
        _alloc: Global,
        _role: Role,
        _fate: Fate,
        event: &Seen,
        before: &[Seen],
    ) -> Result<bool, Memory> {
        Ok(grants_above(event, before))
    }

    ghost says = { λ role. refl };
}
