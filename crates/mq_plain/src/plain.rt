//! The plain evaluators of the statements on sessions.
//!
//! A log is judged in one pass by all of them: events are many, and so each is read from memory
//! once. Events before the CONNACK are judged when it comes, since only then it is known which
//! session they are of.
ghost use Rattle.std.specs.Prelude.{reverse, OnOk, OnErr};
ghost use Rattle.mq_rules.specs.Moments.{IsPlaced};
ghost use Rattle.mq_rules.specs.Faults.{Grows, GrowsWithin};
ghost use Rattle.mq_plain.specs.Chosen.{is_plain_rule, is_plain_lb, is_plain_se};

use crate::answers::{CountedSubacks, CountedUnsubacks};
use crate::deliveries::{AskedTopics, GrantedQos};
use crate::evaluator::{OnReleases, OnRests, OnSessions, Then};
use crate::exchanges::{
    AnsweredPings, Asked, Ordered, PublishPuback, PublishPubrec, PubrecPubrel, PubrelPubcomp,
    Settled, SubscribeSuback, UnsubscribeUnsuback,
};
use crate::identifiers::TakenIdentifiers;
use crate::owing::Resends;
use crate::pass::judge_each;
use crate::quota::SendQuota;
use crate::releases::{ReceivedReleases, ReleasedCompletions, SingleReleases};
use crate::resends::{ResendsBeforePubrel, ResendsInOrder, ResendsOnce, ResendsOpen};
use mq_rules::{Faults, Memory, Seen, Tested};
use std::alloc::Global;

// An exchange with ordered answers: each answer was asked for, each cause is answered at a REST,
// and answers are in order.
type OrderedAnswers<X, Others> = Then<
    OnSessions<Asked<X>>,
    Then<OnRests<Settled<X>>, Then<OnSessions<Ordered<X>>, Others>>,
>;

// Another exchange.
type Answers<X, Others> = Then<OnSessions<Asked<X>>, Then<OnRests<Settled<X>>, Others>>;

// S01 to S07.
type Messages<Others> = Then<
    OnSessions<TakenIdentifiers>,
    Then<
        OnSessions<ResendsOpen>,
        Then<
            OnSessions<ResendsOnce>,
            Then<
                OnSessions<ResendsBeforePubrel>,
                Then<
                    OnSessions<ResendsInOrder>,
                    Then<OnRests<Resends>, Then<OnSessions<SendQuota>, Others>>,
                >,
            >,
        >,
    >,
>;

// E1A to E7R.
type Exchanges = OrderedAnswers<
    PublishPuback,
    OrderedAnswers<
        PublishPubrec,
        OrderedAnswers<
            PubrecPubrel,
            Answers<
                PubrelPubcomp,
                Answers<SubscribeSuback, Answers<UnsubscribeUnsuback, OnSessions<AnsweredPings>>>,
            >,
        >,
    >,
>;

// L1 to L3.
type Releases<Others> = Then<
    OnReleases<ReceivedReleases>,
    Then<OnReleases<SingleReleases>, Then<OnSessions<ReleasedCompletions>, Others>>,
>;

// B01 to B04.
type Subscriptions = Then<
    OnSessions<AskedTopics>,
    Then<OnSessions<GrantedQos>, Then<OnSessions<CountedSubacks>, OnSessions<CountedUnsubacks>>>,
>;

/// Judges each event of a list, the oldest first, by the statements on identifiers, resends and the
/// send quota (S01 to S07) and on exchanges (E1A to E7R). A pair that already has a fault keeps it.
///
/// # Errors
///
/// `Memory` if there is no memory. Some of the faults of these statements may then have been added,
/// but no others.
pub fn plain_se(
    alloc: Global,
    tested: Tested,
    seen: &[Seen],
    faults: &mut Faults,
) -> Result<(), Memory>
    ensures ok { IsPlaced (reverse seen.now) → OnOk result (Grows is_plain_se tested (reverse seen.now) faults.old faults.new) }
    ensures memory { IsPlaced (reverse seen.now) → OnErr result (GrowsWithin is_plain_se tested (reverse seen.now) faults.old faults.new) }
{
    judge_each::<Messages<Exchanges>>(alloc, tested, seen, faults)
}

/// Judges each event of a list, the oldest first, by the statements on releases (L1 to L3) and on
/// subscriptions (B01 to B04). A pair that already has a fault keeps it.
///
/// # Errors
///
/// `Memory` if there is no memory. Some of the faults of these statements may then have been added,
/// but no others.
pub fn plain_lb(
    alloc: Global,
    tested: Tested,
    seen: &[Seen],
    faults: &mut Faults,
) -> Result<(), Memory>
    ensures ok { IsPlaced (reverse seen.now) → OnOk result (Grows is_plain_lb tested (reverse seen.now) faults.old faults.new) }
    ensures memory { IsPlaced (reverse seen.now) → OnErr result (GrowsWithin is_plain_lb tested (reverse seen.now) faults.old faults.new) }
{
    judge_each::<Releases<Subscriptions>>(alloc, tested, seen, faults)
}

/// Judges each event of a list, the oldest first, by all these statements in one pass: those of
/// `plain_se` and those of `plain_lb`. A pair that already has a fault keeps it.
///
/// # Errors
///
/// `Memory` if there is no memory. Some of the faults of these statements may then have been added,
/// but no others.
pub fn plain_sessions(
    alloc: Global,
    tested: Tested,
    seen: &[Seen],
    faults: &mut Faults,
) -> Result<(), Memory>
    ensures ok { IsPlaced (reverse seen.now) → OnOk result (Grows is_plain_rule tested (reverse seen.now) faults.old faults.new) }
    ensures memory { IsPlaced (reverse seen.now) → OnErr result (GrowsWithin is_plain_rule tested (reverse seen.now) faults.old faults.new) }
{
    judge_each::<Then<Messages<Exchanges>, Releases<Subscriptions>>>(alloc, tested, seen, faults)
}
