//! Watching the events of a whole log.
ghost use Rattle.std.specs.Prelude.{◌≡◌, Bool, [], Some, reverse, OnOk, OnErr};
ghost use Rattle.mq_rules.specs.declared.role.Tested.{Tested as TheTested};
ghost use Rattle.mq_rules.specs.declared.rule.Rule.{Rule as TheRule};
ghost use Rattle.mq_rules.specs.declared.fate.Fate.TheVariants.{Void};
ghost use Rattle.mq_rules.specs.Moments.{IsPlaced};
ghost use Rattle.mq_rules.specs.Connections.{AreOnConnections};
ghost use Rattle.mq_rules.specs.Faults.{Grows, GrowsWithin};
ghost use Rattle.mq_rules.specs.Under.{is_on_session, IsInTurn};
ghost use Rattle.mq_watchers.specs.Judging.{IsWhole};

use crate::sessions::Sessions;
use mq_fates::Early;
use mq_rules::{Faults, Memory, Seen, Tested, Watch};
use std::alloc::Global;

/// Lets a watcher take in the events of a log, the oldest first: the faults grow by exactly the
/// failing pairs of its statements in the log.
///
/// # Errors
///
/// `Memory` if there is no memory for what it keeps, or for a fault. Then some of the pairs were
/// added, and no others.
pub fn watch_all<W: Watch>(
    watcher: &mut W,
    seen: &[Seen],
    faults: &mut Faults,
) -> Result<(), Memory>
    ensures ok { OnOk result ((tested : TheTested) (chosen : TheRule → Bool) → IsWhole (W.takes tested) (W.adds tested) chosen tested → W.agrees watcher.old tested (Some Void) [] → IsPlaced (reverse seen.now) → IsInTurn tested.role (reverse seen.now) → AreOnConnections (reverse seen.now) → Grows chosen tested (reverse seen.now) faults.old faults.new) }
    ensures memory { OnErr result ((tested : TheTested) (chosen : TheRule → Bool) → IsWhole (W.takes tested) (W.adds tested) chosen tested → W.agrees watcher.old tested (Some Void) [] → IsPlaced (reverse seen.now) → IsInTurn tested.role (reverse seen.now) → AreOnConnections (reverse seen.now) → GrowsWithin chosen tested (reverse seen.now) faults.old faults.new) }
{
    for event in seen {
        watcher.step(event.place, &event.note, faults)?;
    }
    Ok(())
}

/// Watches S01 to S07, E1A to E7R, L1 to L3, B01 to B09, P01, P02, R01 and R02 in the events of a
/// log, the oldest first: the faults grow by exactly their failing pairs in the log.
///
/// # Errors
///
/// `Memory` if there is no memory for what is kept, or for a fault. Then some of the pairs were
/// added, and no others.
pub fn watch_sessions(
    alloc: Global,
    tested: Tested,
    seen: &[Seen],
    faults: &mut Faults,
) -> Result<(), Memory>
    ensures ok { IsPlaced (reverse seen.now) → IsInTurn tested.role (reverse seen.now) → AreOnConnections (reverse seen.now) → OnOk result (Grows (is_on_session tested) tested (reverse seen.now) faults.old faults.new) }
    ensures memory { IsPlaced (reverse seen.now) → IsInTurn tested.role (reverse seen.now) → AreOnConnections (reverse seen.now) → OnErr result (GrowsWithin (is_on_session tested) tested (reverse seen.now) faults.old faults.new) }
{
    let mut watcher = Early::new(alloc, tested, Sessions::new(alloc, tested));
    watch_all(&mut watcher, seen, faults)
}
