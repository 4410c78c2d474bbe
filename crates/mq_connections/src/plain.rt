//! The plain evaluators: each judges a list of events from its first to its last.
ghost use Rattle.std.specs.Prelude.{◌≡◌, ◌+◌, length, reverse, List, OnOk, OnErr};
ghost use Rattle.mq_rules.specs.declared.role.Tested.{Tested as TheTested};
ghost use Rattle.mq_rules.specs.declared.note.Seen.{Seen as TheSeen};
ghost use Rattle.mq_rules.specs.Moments.{IsPlaced};
ghost use Rattle.mq_rules.specs.Statements.{is_on_bytes, is_on_past};
ghost use Rattle.mq_rules.specs.Faults.{Grows, GrowsWithin};
ghost use Rattle.mq_rules.specs.Growing.{GrowsBy};

use crate::conn::{Conn, is_harmless};
use mq_rules::{Fault, FaultKey, Faults, Memory, Rule, Seen, Tested};
use std::alloc::Global;

/// Judges W01 to W21, the statements on the bytes of one packet, at each event of the list. A key
/// that has a fault already keeps it. The faults are right if the position of each event is its
/// index in the list, counted from 1.
///
/// # Errors
///
/// `Memory` if there is no memory for a fault. Some of the list's faults may then have been added,
/// but no others.
pub fn plain_w(
    _alloc: Global,
    tested: Tested,
    seen: &[Seen],
    faults: &mut Faults,
) -> Result<(), Memory>
    ensures ok { IsPlaced (reverse seen.now) → OnOk result (Grows (is_on_bytes tested) tested (reverse seen.now) faults.old faults.new) }
    ensures memory { IsPlaced (reverse seen.now) → OnErr result (GrowsWithin (is_on_bytes tested) tested (reverse seen.now) faults.old faults.new) }
{
    for event in seen {
        judge_bytes(event, faults)?;
    }
    Ok(())
}

/// Judges C01 to C23, the statements on the past of a connection, at each event of the list, in one
/// pass. A key that has a fault already keeps it. The faults are right if the position of each
/// event is its index in the list, counted from 1.
///
/// # Errors
///
/// `Memory` if there is no memory for a fault or a Topic Alias. Some of the list's faults may then
/// have been added, but no others.
pub fn plain_c(
    alloc: Global,
    tested: Tested,
    seen: &[Seen],
    faults: &mut Faults,
) -> Result<(), Memory>
    ensures ok { IsPlaced (reverse seen.now) → OnOk result (Grows (is_on_past tested) tested (reverse seen.now) faults.old faults.new) }
    ensures memory { IsPlaced (reverse seen.now) → OnErr result (GrowsWithin (is_on_past tested) tested (reverse seen.now) faults.old faults.new) }
{
    let mut conn = Conn::new(alloc, tested);
    let mut bounds = conn.send_bounds();
    for event in seen {
        if is_harmless(bounds, &event.note) {
            continue;
        }
        conn.take_in(event.place, &event.note, faults)?;
        bounds = conn.send_bounds();
    }
    Ok(())
}

/// Judges the bytes of one event, which break at most one rule.
///
/// # Errors
///
/// `Memory` if there is no memory for a fault. The faults are then unchanged.
pub(crate) fn judge_bytes(event: &Seen, faults: &mut Faults) -> Result<(), Memory>
    ensures ok { OnOk result ((tested : TheTested) (past : List TheSeen) → event.now.place.position ≡ length past + 1 → GrowsBy (is_on_bytes tested) tested event.now past faults.old faults.new) }
    ensures unchanged { OnErr result (faults.new ≡ faults.old) }
{
    let Some(broken) = event.note.body_fault() else {
        return Ok(());
    };
    let key = FaultKey {
        position: event.place.position,
        rule: Rule::of(broken.rule),
    };
    faults.add(key, Fault::at_once(event.place, Some(broken.at)))?;
    Ok(())
}
