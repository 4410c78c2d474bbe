//! What the subscriptions that match the topic of a delivery say of it.
ghost use Rattle.std.specs.Prelude.{◌≡◌, ◌&&◌, not, nat_lt, length};
ghost use Rattle.mq_rules.specs.Notes.{qos_number as number_of};
ghost use Rattle.mq_subscriptions.specs.Verdicts as verdicts;
ghost use Rattle.mq_subscriptions.specs.Verdicts.{sought_by};

use crate::subscribed::Matched;
use mq_fates::is_acknowledged;
use mq_filters::is_within;
use mq_rules::{PublishNote, qos_number};

/// Which of the statements on subscriptions that match an event breaks, or puts to the test.
#[derive(Clone, Copy)]
pub struct Verdicts {
    /// B08.
    pub matched: bool,
    /// B09.
    pub granted: bool,
    /// P01.
    pub named: bool,
    /// P02.
    pub identified: bool,
    /// R01.
    pub unretained: bool,
    /// R02.
    pub unshared: bool,
}

/// None of them.
pub fn nothing() -> Verdicts
    ensures { result ≡ verdicts.nothing }
{
    Verdicts {
        matched: false,
        granted: false,
        named: false,
        identified: false,
        unretained: false,
        unshared: false,
    }
}

// Whether some subscription matches, and each that does has a Subscription Identifier.
fn are_identified(found: &Matched) -> bool
    ensures { result ≡ verdicts.are_identified (sought_by found.now) }
{
    found.ceiling.is_some() && !found.unidentified
}

// Whether a PUBLISH has Subscription Identifiers.
fn has_identifiers(publish: &PublishNote) -> bool
    ensures { result ≡ nat_lt 0 (length publish.now.subscription_identifiers) }
{
    !publish.subscription_identifiers.as_slice().is_empty()
}

// Whether some matches, and none that does keeps the RETAIN flag or asks for retained messages.
fn are_plain(found: &Matched) -> bool
    ensures { result ≡ verdicts.are_plain (sought_by found.now) }
{
    found.ceiling.is_some() && !(found.retained || found.in_vain)
}

// Whether some shared one that asks for retained messages matches, and none that may be sent what
// has RETAIN 1.
fn are_in_vain(found: &Matched) -> bool
    ensures { result ≡ verdicts.are_in_vain (sought_by found.now) }
{
    found.in_vain && !found.retained
}

// Whether some subscription matches, but none that was granted its QoS.
fn is_above(found: &Matched, publish: &PublishNote) -> bool
    ensures { result ≡ ((sought_by found.now).any && not ((sought_by found.now).within (number_of publish.now.qos))) }
{
    found.ceiling.is_some() && !is_within(found.ceiling, qos_number(publish.qos))
}

// What a delivery breaks.
fn broken_by(
    sharing: bool,
    takes: bool,
    publish: &PublishNote,
    found: &Matched,
    unnamed: bool,
) -> Verdicts
    ensures { result ≡ verdicts.breaks_by sharing takes publish.now (sought_by found.now) unnamed }
{
    let identified = are_identified(found);
    let plain = are_plain(found);
    let in_vain = are_in_vain(found);
    let above = is_above(found, publish);
    let some = found.ceiling.is_some();
    Verdicts {
        matched: sharing && !some,
        granted: sharing && above,
        named: some && unnamed,
        identified: (takes && identified) && !publish.has_subscription_identifier,
        unretained: plain && publish.retain,
        unshared: in_vain && publish.retain,
    }
}

// What it puts to the test.
fn tested_by(sharing: bool, takes: bool, publish: &PublishNote, found: &Matched) -> Verdicts
    ensures { result ≡ verdicts.tests_by sharing takes publish.now (sought_by found.now) }
{
    let identified = are_identified(found);
    let plain = are_plain(found);
    let in_vain = are_in_vain(found);
    let has_identifiers = has_identifiers(publish);
    let some = found.ceiling.is_some();
    let acknowledged = is_acknowledged(publish.qos);
    Verdicts {
        matched: sharing,
        granted: sharing && acknowledged,
        named: has_identifiers && some,
        identified: takes && identified,
        unretained: plain,
        unshared: in_vain,
    }
}

/// What a delivery puts to the test, or breaks, by the subscriptions that match its topic, where the
/// session has a shared subscription or not, the server takes Subscription Identifiers or not, and
/// one of those of the PUBLISH isn't that of such a subscription, or each is.
pub fn verdicts_on(
    wide: bool,
    sharing: bool,
    takes: bool,
    publish: &PublishNote,
    found: &Matched,
    unnamed: bool,
) -> Verdicts
    ensures { result ≡ verdicts.verdicts wide sharing takes publish.now (sought_by found.now) unnamed }
{
    if wide {
        return tested_by(sharing, takes, publish, found);
    }
    broken_by(sharing, takes, publish, found, unnamed)
}
