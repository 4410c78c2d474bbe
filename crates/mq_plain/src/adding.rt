//! Adding a fault that may be decided after its own event.
ghost use Rattle.std.specs.Prelude.{◌≡◌, OnOk, OnErr};
ghost use Rattle.mq_rules.specs.FaultKeys.{with_fault};
ghost use Rattle.mq_plain.specs.Blames.{decided_by};

use mq_log::Place3;
use mq_rules::{Fault, FaultKey, Faults, Memory, Rule};

/// Adds the fault of a statement at a place, decided at this position. A pair that already has a
/// fault keeps it.
///
/// # Errors
///
/// `Memory` if there is no memory for it. The faults are then unchanged.
pub fn add_fault(rule: Rule, decided: u32, place: Place3, faults: &mut Faults) -> Result<(), Memory>
    ensures ok { OnOk result (faults.new ≡ with_fault (record { position = place.position; rule = rule }) (decided_by decided place) faults.old) }
    ensures unchanged { OnErr result (faults.new ≡ faults.old) }
{
    let key = FaultKey {
        position: place.position,
        rule,
    };
    let fault = Fault {
        decided,
        record_no: place.record_no,
        offset: None,
    };
    faults.add(key, fault)
}
