//! What the Reason Codes of an UNSUBACK tell (MQTT 5.0, section 3.11.3).
ghost use Rattle.std.specs.Prelude.{◌≡◌, ◌&&◌, ◌||◌, true};
ghost use Rattle.indexmap.specs.IndexMap.{get_by_text};
ghost use Rattle.mq_rules.specs.FurtherSubscriptions.{some_coded};
ghost use Rattle.mq_subscriptions.specs.Deletings as deletings;

use crate::requested::{FilterState, is_last, stands};
use indexmap::IndexMap;
use mq_rules::NotedFilter;

/// The Reason Code Success, which says that a subscription was deleted.
const DELETED: u8 = 0;

/// The Reason Code No subscription existed.
const DENIED: u8 = 17;

// Whether it says that there was no subscription, or also that one was deleted.
fn is_denial(wide: bool, code: u8) -> bool
    ensures { result ≡ deletings.denies wide code }
{
    (wide && code == DELETED) || code == DENIED
}

// Whether it says of a filter that was never subscribed that it was deleted; or of any filter, and
// of such a one that it wasn't subscribed.
fn is_invention(wide: bool, stood: bool, code: u8) -> bool
    ensures { result ≡ deletings.invents wide stood code }
{
    if wide {
        return code == DELETED || (code == DENIED && !stood);
    }
    code == DELETED && !stood
}

// Whether a filter's subscription stood, nothing has asked about the filter since this position, and
// its Reason Code denies that.
fn is_denied(
    wide: bool,
    states: &IndexMap<String, FilterState>,
    at: u32,
    filter: &str,
    subscribed: bool,
    code: u8,
) -> bool
    ensures { result ≡ ((subscribed && deletings.is_last at (get_by_text states.now filter.now)) && deletings.denies wide code) }
{
    (subscribed && is_last(states, filter, at)) && is_denial(wide, code)
}

/// Whether a Reason Code denies a subscription to one of the filters of an UNSUBSCRIBE.
pub fn denies(
    wide: bool,
    states: &IndexMap<String, FilterState>,
    at: u32,
    filters: &[NotedFilter],
    subscribed: &[bool],
    codes: &[u8],
) -> bool
    ensures { result ≡ deletings.some_stood (λ f. deletings.is_last at (get_by_text states.now f)) (deletings.denies wide) filters.now subscribed.now codes.now }
{
    let mut filters = filters;
    let mut subscribed = subscribed;
    let mut codes = codes;
    while let Some((filter, next_filters)) = filters.split_first() {
        let Some((stood, next_subscribed)) = subscribed.split_first() else {
            return false;
        };
        let Some((code, next_codes)) = codes.split_first() else {
            return false;
        };
        if is_denied(wide, states, at, filter.filter.as_str(), *stood, *code) {
            return true;
        }
        filters = next_filters;
        subscribed = next_subscribed;
        codes = next_codes;
    }
    false
}

/// Whether a Reason Code invents a subscription to one of the filters of an UNSUBSCRIBE.
pub fn invents(
    wide: bool,
    states: &IndexMap<String, FilterState>,
    filters: &[NotedFilter],
    codes: &[u8],
) -> bool
    ensures { result ≡ some_coded (λ g code. deletings.invents wide (deletings.stands (get_by_text states.now g.filter)) code) filters.now codes.now }
{
    let mut filters = filters;
    let mut codes = codes;
    while let Some((filter, next_filters)) = filters.split_first() {
        let Some((code, next_codes)) = codes.split_first() else {
            return false;
        };
        if is_invention(wide, stands(states, filter.filter.as_str()), *code) {
            return true;
        }
        filters = next_filters;
        codes = next_codes;
    }
    false
}
