//! The statements on bytes and on the past of a connection, in one pass: events are many, and so
//! each is read from memory once.
ghost use Rattle.std.specs.Prelude.{◌||◌, reverse, OnOk, OnErr};
ghost use Rattle.mq_rules.specs.Moments.{IsPlaced};
ghost use Rattle.mq_rules.specs.Statements.{is_on_bytes, is_on_past};
ghost use Rattle.mq_rules.specs.Faults.{Grows, GrowsWithin};

use crate::conn::{Conn, is_harmless};
use crate::plain::judge_bytes;
use mq_rules::{Faults, Memory, Seen, Tested};
use std::alloc::Global;

/// Judges W01 to W21 and C01 to C23 at each event of the list: what `plain_w` and `plain_c` judge.
/// A key that has a fault already keeps it. The faults are right if the position of each event is
/// its index in the list, counted from 1.
///
/// # Errors
///
/// `Memory` if there is no memory for a fault or a Topic Alias. Some of the list's faults may then
/// have been added, but no others.
pub fn plain_connections(
    alloc: Global,
    tested: Tested,
    seen: &[Seen],
    faults: &mut Faults,
) -> Result<(), Memory>
    ensures ok { IsPlaced (reverse seen.now) → OnOk result (Grows (λ rule. is_on_bytes tested rule || is_on_past tested rule) tested (reverse seen.now) faults.old faults.new) }
    ensures memory { IsPlaced (reverse seen.now) → OnErr result (GrowsWithin (λ rule. is_on_bytes tested rule || is_on_past tested rule) tested (reverse seen.now) faults.old faults.new) }
{
    let mut conn = Conn::new(alloc, tested);
    let mut bounds = conn.send_bounds();
    for event in seen {
        if is_harmless(bounds, &event.note) {
            continue;
        }
        judge_bytes(event, faults)?;
        conn.take_in(event.place, &event.note, faults)?;
        bounds = conn.send_bounds();
    }
    Ok(())
}
