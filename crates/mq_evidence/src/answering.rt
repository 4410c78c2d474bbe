//! The exchanges side by side (MQTT 5.0, sections 3.8.4, 3.10.4 and 4.3).
ghost use Rattle.std.specs.Prelude.{◌≡◌, OnOk};
ghost use Rattle.mq_rules.specs.Moments.{Moment};
ghost use Rattle.mq_evidence.specs.Stretches.{Stretches, Comes, advanced, nothing_yet};
ghost use Rattle.mq_evidence.specs.Answering.{IsAnswering, IsWaiting};

use crate::asked::{Asked, Confirmed};
use crate::exchange::Exchange;
use crate::passing::passes_asked;
use crate::requests::Requests;
use crate::turn::Turn;
use crate::unanswered::Unanswered;
use mq_rules::{Memory, Note};
use std::alloc::Global;

/// What was asked for, and how it was answered, by the answers.
#[derive(Drop)]
pub struct Answering {
    /// PUBACKs, for PUBLISHes of QoS 1.
    pub pubacks: Asked,
    /// PUBRECs, for PUBLISHes of QoS 2.
    pub pubrecs: Asked,
    /// PUBRELs, for PUBRECs.
    pub pubrels: Confirmed,
    /// PUBCOMPs, for PUBRELs.
    pub pubcomps: Asked,
    /// SUBACKs, for SUBSCRIBEs.
    pub subacks: Asked,
    /// UNSUBACKs, for UNSUBSCRIBEs.
    pub unsubacks: Asked,
}

impl Answering {
    /// Nothing was asked for.
    pub fn new(alloc: Global) -> Self
        ensures { IsAnswering result nothing_yet }
    {
        Answering {
            pubacks: Asked::new(alloc, Exchange::PublishPuback),
            pubrecs: Asked::new(alloc, Exchange::PublishPubrec),
            pubrels: Confirmed::new(alloc),
            pubcomps: Asked::new(alloc, Exchange::PubrelPubcomp),
            subacks: Asked::new(alloc, Exchange::SubscribeSuback),
            unsubacks: Asked::new(alloc, Exchange::UnsubscribeUnsuback),
        }
    }

    /// Takes in the next event.
    ///
    /// # Errors
    ///
    /// `Memory` if there is no memory for what it keeps. Its state is then of no use.
    pub fn take(&mut self, turn: Turn, note: &Note) -> Result<(), Memory>
        ensures { OnOk result ((m : Moment) (s : Stretches) → Comes turn note.now m → IsAnswering self.old s → IsAnswering self.new (advanced turn m s)) }
    {
        if passes_asked(turn, note) {
            return Ok(());
        }
        self.pubacks.take(turn, note)?;
        self.pubrecs.take(turn, note)?;
        self.pubrels.take(turn, note)?;
        self.pubcomps.take(turn, note)?;
        self.subacks.take(turn, note)?;
        self.unsubacks.take(turn, note)?;
        Ok(())
    }
}

/// What waits for its answer on the connection.
#[derive(Drop)]
pub struct Waiting {
    /// PUBLISHes of QoS 1.
    pub pubacks: Unanswered,
    /// PUBLISHes of QoS 2.
    pub pubrecs: Unanswered,
    /// PUBRECs.
    pub pubrels: Unanswered,
    /// SUBSCRIBEs and UNSUBSCRIBEs, with the numbers of their filters.
    pub requests: Requests,
}

impl Waiting {
    /// Nothing waits.
    pub fn new(alloc: Global) -> Self
        ensures { IsWaiting result nothing_yet }
    {
        Waiting {
            pubacks: Unanswered::new(alloc, Exchange::PublishPuback),
            pubrecs: Unanswered::new(alloc, Exchange::PublishPubrec),
            pubrels: Unanswered::new(alloc, Exchange::PubrecPubrel),
            requests: Requests::new(alloc),
        }
    }

    /// Takes in the next event.
    ///
    /// # Errors
    ///
    /// As above.
    pub fn take(&mut self, turn: Turn, note: &Note) -> Result<(), Memory>
        ensures { OnOk result ((m : Moment) (s : Stretches) → Comes turn note.now m → IsWaiting self.old s → IsWaiting self.new (advanced turn m s)) }
    {
        if passes_asked(turn, note) {
            return Ok(());
        }
        self.pubacks.take(turn, note)?;
        self.pubrecs.take(turn, note)?;
        self.pubrels.take(turn, note)?;
        self.requests.take(turn, note)?;
        Ok(())
    }
}
