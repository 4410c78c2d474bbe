//! What is kept under each Packet Identifier of the session.
ghost use Rattle.std.specs.Prelude.{◌≡◌, ℕ, OnOk, false};
ghost use Rattle.mq_rules.specs.ByIdentifier.{kept};
ghost use Rattle.mq_rules.specs.Words.{is_id};
ghost use Rattle.mq_evidence.specs.Stretches.{last_next};

use crate::tables::keep_latest;
use crate::turn::Turn;
use mq_rules::{ByIdentifier, Memory};
use std::alloc::Global;

/// Keeps the position of an event of the session that gains an identifier, in place of an earlier
/// one.
#[inline(always)]
pub fn keep_in_session(
    positions: &mut ByIdentifier<u32>,
    alloc: Global,
    turn: Turn,
    gained: Option<u16>,
) -> Result<(), Memory>
    ensures { OnOk result ((i : ℕ) → kept positions.new i ≡ last_next turn.begins turn.inside (is_id i gained) false turn.position (kept positions.old i)) }
{
    keep_latest(
        positions,
        alloc,
        turn.begins,
        turn.inside,
        gained,
        None,
        turn.position,
    )?;
    Ok(())
}
