//! The Topic Filters that stand whatever comes (MQTT 5.0, sections 3.8.4 and 3.9): for the evidence
//! of B02.
ghost use Rattle.std.specs.Prelude.{◌≡◌, ◌||◌, nat_le, ℕ, false, OnOk, IfOk};
ghost use Rattle.mq_topic.specs.Matching.{matches as is_match};
ghost use Rattle.mq_filters.specs.Standings.{has_ceiling};
ghost use Rattle.mq_evidence.specs.Settling.{Question, allowing, not_before, passes, holds};

use crate::last_requests::LastRequests;
use mq_filters::StandingFilters;
use mq_rules::Memory;
use std::alloc::Global;

/// Filters that stand, each with the greatest QoS of what may be sent for it, and with the last
/// SUBSCRIBE that asked for it.
#[derive(Drop)]
pub struct Settled {
    ceilings: StandingFilters,
    last: LastRequests,
}

impl Settled {
    /// No filter stands.
    pub fn new(alloc: Global) -> Self
        ensures { (q : Question) → holds q result ≡ false }
    {
        Settled {
            ceilings: StandingFilters::new(alloc),
            last: LastRequests::new(alloc),
        }
    }

    /// Adds a filter of the SUBSCRIBE at a position, or raises its ceiling.
    ///
    /// # Errors
    ///
    /// `Memory` if there is no memory for it. Its state is then of no use.
    pub fn stand(
        &mut self,
        alloc: Global,
        position: u32,
        filter: &str,
        ceiling: u8,
    ) -> Result<(), Memory>
        ensures { OnOk result ((q : Question) → holds q self.new ≡ (holds q self.old || passes q position (record { filter = filter.now; ceiling = ceiling }))) }
    {
        self.ceilings.stand(alloc, filter, ceiling)?;
        self.last.stand(alloc, filter, position)?;
        Ok(())
    }

    /// The greatest ceiling of the filters that match a topic.
    ///
    /// # Errors
    ///
    /// `Memory` if there is no memory to look for them.
    pub fn ceiling_for(&self, alloc: Global, topic: &str) -> Result<Option<u8>, Memory>
        ensures { IfOk result (λ ceiling. (qos : ℕ) → has_ceiling (nat_le qos) ceiling ≡ holds (allowing (λ filter. is_match filter topic.now) qos) self.now) }
    {
        let ceiling = self.ceilings.ceiling_for(alloc, topic)?;
        Ok(ceiling)
    }

    /// The position of the last SUBSCRIBE of the filters that match a topic.
    pub fn last_for(&self, topic: &str) -> Option<u32>
        ensures { (first : ℕ) → has_ceiling (nat_le first) result ≡ holds (not_before (λ filter. is_match filter topic.now) first) self.now }
    {
        self.last.last_for(topic)
    }
}
