//! The RESTs that show the faults of S06, and the CONNACK of each one's connection (MQTT 5.0,
//! section 4.4): what wasn't sent again had to be, since that CONNACK resumed the session.
ghost use Rattle.std.specs.Prelude.{◌≡◌, ◌&&◌, ℕ, Some, cond, is_some, nat_eq, IfOk};
ghost use Rattle.std.specs.List.{list_any};
ghost use Rattle.std.specs.FinMap as map;
ghost use Rattle.indexmap.specs.IndexMap.{get};
ghost use Rattle.mq_evidence.specs.Rests.{shows_at, connack_of};

use indexmap::IndexMap;
use mq_rules::{Faults, Memory, Rule};
use std::alloc::Global;

/// The positions of some RESTs, each with that of the CONNACK on its connection.
#[derive(Drop)]
pub struct Rests {
    connacks: IndexMap<u32, Option<u32>>,
}

impl Rests {
    /// The RESTs that show the faults of S06 among these.
    ///
    /// # Errors
    ///
    /// `Memory` if there is no memory for them.
    pub fn of(alloc: Global, faults: &Faults) -> Result<Self, Memory>
        ensures { IfOk result (λ rests. (p : ℕ) → is_some (get nat_eq rests.connacks p) ≡ list_any (shows_at p) (map.entries faults.now)) }
    {
        let mut connacks = IndexMap::new(alloc);
        for (key, fault) in faults.iter() {
            if key.rule == Rule::S06 {
                connacks.insert(fault.decided, None)?;
            }
        }
        Ok(Rests { connacks })
    }

    /// Takes in an event at a position, before which its connection had this CONNACK.
    pub fn take(&mut self, position: u32, connack: Option<u32>)
        ensures { (p : ℕ) → get nat_eq self.new.connacks p ≡ cond (nat_eq position p && is_some (get nat_eq self.old.connacks p)) (Some connack) (get nat_eq self.old.connacks p) }
    {
        if let Some(kept) = self.connacks.get_mut(&position) {
            *kept = connack;
        }
    }

    /// The CONNACK of the connection of the REST at a position.
    pub fn connack(&self, position: u32) -> Option<u32>
        ensures { result ≡ connack_of (get nat_eq self.now.connacks position) }
    {
        match self.connacks.get(&position) {
            Some(connack) => *connack,
            None => None,
        }
    }
}
