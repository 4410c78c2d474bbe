//! What stands in the session, and what may be sent for a topic (MQTT 5.0, sections 3.8 and 3.9):
//! the evidence of B01 and B02.
ghost use Rattle.std.specs.Prelude.{◌≡◌, ◌∷◌, [], List, Some, None, is_some, OnOk, IfOk, IfSome};
ghost use Rattle.mq_rules.specs.declared.role.Role.{Role as TheRole};
ghost use Rattle.mq_rules.specs.declared.fate.Fate.{Fate as TheFate};
ghost use Rattle.mq_rules.specs.declared.rule.Rule.TheVariants.{B01, B02};
ghost use Rattle.mq_rules.specs.declared.note.Seen.{Seen};
ghost use Rattle.mq_rules.specs.Notes.{sent_publish, qos_number as number_of_qos};
ghost use Rattle.mq_rules.specs.Moments.{Moment, moments, newest, note as note_of, Among};
ghost use Rattle.mq_evidence.specs.Evidence.{found, reason, two_of};
ghost use Rattle.mq_evidence.specs.Stretches.{Stretches, Comes, advanced, nothing_yet, stretches_before};
ghost use Rattle.mq_evidence.specs.Subscriptions.{IsSubscriptions};

use crate::ceilings::Ceilings;
use crate::subscribed::Subscribed;
use crate::topics::Topics;
use crate::turn::Turn;
use mq_packet::Qos;
use mq_rules::{Evidence, Memory, Note, Numbers, PublishNote, qos_number};
use std::alloc::Global;

/// The Topic Filters that stand in the session, what they allow, and the topics of what is sent.
#[derive(Drop)]
pub struct Subscriptions {
    subscribed: Subscribed,
    topics: Topics,
    ceilings: Ceilings,
}

impl Subscriptions {
    /// No filter stands.
    pub fn new(alloc: Global) -> Self
        ensures { IsSubscriptions result [] nothing_yet }
    {
        Subscriptions {
            subscribed: Subscribed::new(alloc),
            topics: Topics::new(alloc),
            ceilings: Ceilings::new(alloc),
        }
    }

    /// Takes in the next event.
    ///
    /// # Errors
    ///
    /// `Memory` if there is no memory for what it keeps. Its state is then of no use.
    pub fn take(&mut self, turn: Turn, note: &Note) -> Result<(), Memory>
        ensures { OnOk result ((e : Seen) (past : List Seen) (s : Stretches) → Comes turn note.now (newest e past) → ((j : Moment) → Among j s.session → Among j (moments past)) → IsSubscriptions self.old past s
            → IsSubscriptions self.new (e ∷ past) (advanced turn (newest e past) s)) }
    {
        self.subscribed.take(turn, note)?;
        self.topics.take(turn, note)?;
        self.ceilings.take(turn, note)?;
        Ok(())
    }

    /// The evidence of B01: how many filters stand.
    pub fn of_unasked(&self) -> Evidence
        ensures { (role : TheRole) (f : TheFate) (k : Moment) → IsSubscriptions self.now k.past (stretches_before role f k) → result ≡ found (reason role B01) (Some f) None k }
    {
        Evidence {
            because: None,
            numbers: Numbers::One(self.subscribed.different()),
        }
    }

    /// That of B02: the last SUBSCRIBE that matches, and the QoS that is exceeded.
    ///
    /// # Errors
    ///
    /// `Memory` if there is no memory to look for them.
    pub fn of_exceeding(&self, note: &Note) -> Result<Evidence, Memory>
        ensures { IfOk result (λ evidence. (role : TheRole) (f : TheFate) (k : Moment) → IsSubscriptions self.now k.past (stretches_before role f k) → note_of k ≡ note.now → evidence ≡ found (reason role B02) (Some f) None k) }
    {
        let Some(publish) = note.sent_publish() else {
            return Ok(Evidence::nothing());
        };
        let evidence = self.of_exceeding_publish(publish)?;
        Ok(evidence)
    }

    // The same of a PUBLISH that is sent.
    fn of_exceeding_publish(&self, publish: &PublishNote) -> Result<Evidence, Memory>
        ensures { IfOk result (λ evidence. (role : TheRole) (f : TheFate) (k : Moment) → IsSubscriptions self.now k.past (stretches_before role f k) → sent_publish (note_of k) ≡ Some publish.now → evidence ≡ found (reason role B02) (Some f) None k) }
    {
        let Some(topic) = self.topics.topic(publish) else {
            return Ok(Evidence::nothing());
        };
        let ceiling = self.ceilings.greatest(topic)?;
        let because = self.ceilings.last_request(topic);
        let numbers = numbers_of(publish.qos, ceiling);
        Ok(Evidence { because, numbers })
    }
}

/// What is kept if it is asked for.
pub fn kept_if(alloc: Global, needed: bool) -> Option<Subscriptions>
    ensures kept { is_some result ≡ needed }
    ensures agrees { IfSome result (λ x. IsSubscriptions x [] nothing_yet) }
{
    if needed {
        Some(Subscriptions::new(alloc))
    } else {
        None
    }
}

/// Takes in the next event, if anything is kept.
///
/// # Errors
///
/// `Memory` if there is no memory for what is kept. Its state is then of no use.
pub fn take_if_kept(
    subscriptions: &mut Option<Subscriptions>,
    turn: Turn,
    note: &Note,
) -> Result<(), Memory>
    ensures kept { OnOk result (is_some subscriptions.new ≡ is_some subscriptions.old) }
    ensures agrees { OnOk result ((e : Seen) (past : List Seen) (s : Stretches) → Comes turn note.now (newest e past) → ((j : Moment) → Among j s.session → Among j (moments past)) → IfSome subscriptions.old (λ x. IsSubscriptions x past s)
        → IfSome subscriptions.new (λ x. IsSubscriptions x (e ∷ past) (advanced turn (newest e past) s))) }
{
    match subscriptions {
        Some(kept) => kept.take(turn, note),
        None => Ok(()),
    }
}

// The QoS of a PUBLISH and the greatest that is allowed, if any is.
fn numbers_of(qos: Qos, ceiling: Option<u8>) -> Numbers
    ensures { result ≡ two_of (Some (number_of_qos qos)) ceiling }
{
    match ceiling {
        Some(ceiling) => Numbers::Two(u64::from(qos_number(qos)), u64::from(ceiling)),
        None => Numbers::Nothing,
    }
}
