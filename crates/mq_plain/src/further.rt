//! The plain evaluator of the further statements. By those on connections it judges each event at
//! once, since no fate of its connection is needed; by those on subscriptions in a second pass, as
//! the other statements on sessions.
ghost use Rattle.std.specs.Prelude.{reverse, OnOk, OnErr};
ghost use Rattle.mq_rules.specs.Moments.{IsPlaced};
ghost use Rattle.mq_rules.specs.Faults.{Grows, GrowsWithin};
ghost use Rattle.mq_plain.specs.Chosen.{is_plain_connection, is_plain_further, is_plain_subscription};

mod answering;
mod authentication;
mod deletions;
mod delivering;
mod duties;
mod errors;
mod evaluator;
mod excess;
mod grants;
mod judging;
mod limits;
mod matching;
mod moments;
mod packets;
mod showing;
mod silences;
mod subscribed;

use crate::evaluator::{OnSessions, Then};
use crate::pass::judge_each;
use authentication::{AskedAuthentication, SameMethod, WaitsForConnack};
use deletions::{FoundedDeletions, KnownSubscriptions};
use delivering::{
    ClearedRetain, GivenIdentifiers, OwnIdentifiers, SharedQos, SharedTopics, UnretainedShares,
};
use duties::{AnsweredConnect, ClosedMalformed, ClosedReconnect};
use errors::ClosedMistaken;
use evaluator::{Also, OnLater, OnPasts, judge_events};
use excess::ClosedExceeding;
use grants::AskedQos;
use limits::{NoIdentifiers, NoShares, NoWildcards, RetainedNothing, WillQos, WillRetain};
use mq_rules::{Faults, Memory, Seen, Tested};
use packets::{LocalShares, NamedShares, OwnCodes};
use silences::{ClosedInTime, HeardInTime};
use std::alloc::Global;

// F01 to F06.
type Limits<Others> = Also<
    OnPasts<RetainedNothing>,
    Also<
        OnPasts<NoWildcards>,
        Also<
            OnPasts<NoIdentifiers>,
            Also<OnPasts<NoShares>, Also<OnPasts<WillQos>, Also<OnPasts<WillRetain>, Others>>>,
        >,
    >,
>;

// V03, V04 and V06.
type Packets<Others> = Also<
    OnPasts<NamedShares>,
    Also<OnPasts<LocalShares>, Also<OnPasts<OwnCodes>, Others>>,
>;

// C24, D01 to D03, and D05.
type Obligations<Others> = Also<
    OnLater<AnsweredConnect>,
    Also<
        OnLater<ClosedMalformed>,
        Also<
            OnLater<ClosedReconnect>,
            Also<OnLater<ClosedMistaken>, Also<OnLater<ClosedExceeding>, Others>>,
        >,
    >,
>;

// A01 to A03.
type Authentication<Others> = Also<
    OnPasts<WaitsForConnack>,
    Also<OnPasts<AskedAuthentication>, Also<OnPasts<SameMethod>, Others>>,
>;

// K01 and K02.
type Silences = Also<OnPasts<HeardInTime>, OnPasts<ClosedInTime>>;

// B05 to B07.
type Subscriptions<Others> = Then<
    OnSessions<AskedQos>,
    Then<OnSessions<KnownSubscriptions>, Then<OnSessions<FoundedDeletions>, Others>>,
>;

// B08 and B09.
type Shares<Others> = Then<OnSessions<SharedTopics>, Then<OnSessions<SharedQos>, Others>>;

// P01, P02, R01 and R02.
type Deliveries = Then<
    OnSessions<OwnIdentifiers>,
    Then<
        OnSessions<GivenIdentifiers>,
        Then<OnSessions<ClearedRetain>, OnSessions<UnretainedShares>>,
    >,
>;

/// Judges each event of a list, the oldest first, by the further statements: on one packet and on
/// what came before it (F01 to F06, V03, V04, V06, A01 to A03), on what a server owes for what it
/// received (C24, D01 to D03, D05), on the Keep Alive (K01, K02), and on subscriptions (B05 to B09,
/// P01, P02, R01, R02). A pair that already has a fault keeps it. Those that aren't asked for don't
/// bind the tested end.
///
/// # Errors
///
/// `Memory` if there is no memory. Some of the faults of these statements may then have been added,
/// but no others.
pub fn plain_further(
    alloc: Global,
    tested: Tested,
    seen: &[Seen],
    faults: &mut Faults,
) -> Result<(), Memory>
    ensures ok { IsPlaced (reverse seen.now) → OnOk result (Grows is_plain_further tested (reverse seen.now) faults.old faults.new) }
    ensures memory { IsPlaced (reverse seen.now) → OnErr result (GrowsWithin is_plain_further tested (reverse seen.now) faults.old faults.new) }
{
    judge_connections(alloc, tested, seen, faults)?;
    judge_subscriptions(alloc, tested, seen, faults)?;
    Ok(())
}

// Judges each event by the further statements on connections.
//
// Errors: `Memory` if there is none.
fn judge_connections(
    alloc: Global,
    tested: Tested,
    seen: &[Seen],
    faults: &mut Faults,
) -> Result<(), Memory>
    ensures ok { IsPlaced (reverse seen.now) → OnOk result (Grows is_plain_connection tested (reverse seen.now) faults.old faults.new) }
    ensures memory { IsPlaced (reverse seen.now) → OnErr result (GrowsWithin is_plain_connection tested (reverse seen.now) faults.old faults.new) }
{
    judge_events::<Limits<Packets<Obligations<Authentication<Silences>>>>>(
        alloc, tested, seen, faults,
    )
}

// Judges each event by those on subscriptions.
//
// Errors: `Memory` if there is none.
fn judge_subscriptions(
    alloc: Global,
    tested: Tested,
    seen: &[Seen],
    faults: &mut Faults,
) -> Result<(), Memory>
    ensures ok { IsPlaced (reverse seen.now) → OnOk result (Grows is_plain_subscription tested (reverse seen.now) faults.old faults.new) }
    ensures memory { IsPlaced (reverse seen.now) → OnErr result (GrowsWithin is_plain_subscription tested (reverse seen.now) faults.old faults.new) }
{
    judge_each::<Subscriptions<Shares<Deliveries>>>(alloc, tested, seen, faults)
}
