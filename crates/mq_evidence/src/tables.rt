//! What is kept under each Packet Identifier (MQTT 5.0, section 2.2.1) of a stretch of the log: the
//! positions of its latest or of its earliest events of one kind, or only that there are some.
ghost use Rattle.std.specs.Prelude.{◌≡◌, ◌&&◌, ℕ, OnOk, is_some, not};
ghost use Rattle.mq_rules.specs.ByIdentifier.{is_kept, kept};
ghost use Rattle.mq_rules.specs.Words.{is_id, only};
ghost use Rattle.mq_evidence.specs.Stretches.{last_next, first_next, once_next, again_next, earlier_next, later_at};

use mq_rules::{ByIdentifier, Memory};
use std::alloc::Global;

// Whether an event changes nothing: no stretch begins anew with it, and it gains and loses nothing.
// It is so of most events in most tables.
#[inline(always)]
fn changes_nothing(over: bool, gained: Option<u16>, lost: Option<u16>) -> bool
    ensures { result ≡ (not over && (not (is_some gained) && not (is_some lost))) }
{
    !over && (gained.is_none() && lost.is_none())
}

/// Keeps the position of an event that gains an identifier, in place of an earlier one, and drops
/// that of one which it loses. A stretch that begins anew with the event has none before.
#[inline(always)]
pub fn keep_latest(
    positions: &mut ByIdentifier<u32>,
    alloc: Global,
    over: bool,
    inside: bool,
    gained: Option<u16>,
    lost: Option<u16>,
    position: u32,
) -> Result<(), Memory>
    ensures { OnOk result ((i : ℕ) → kept positions.new i ≡ last_next over inside (is_id i gained) (is_id i lost) position (kept positions.old i)) }
{
    if changes_nothing(over, gained, lost) {
        return Ok(());
    }
    change_latest(positions, alloc, over, inside, gained, lost, position)
}

// The same, of any event.
#[inline(never)]
fn change_latest(
    positions: &mut ByIdentifier<u32>,
    alloc: Global,
    over: bool,
    inside: bool,
    gained: Option<u16>,
    lost: Option<u16>,
    position: u32,
) -> Result<(), Memory>
    ensures { OnOk result ((i : ℕ) → kept positions.new i ≡ last_next over inside (is_id i gained) (is_id i lost) position (kept positions.old i)) }
{
    if over {
        *positions = ByIdentifier::new(alloc);
    }
    if !inside {
        return Ok(());
    }
    if let Some(i) = lost {
        positions.remove(i);
    }
    if let Some(i) = gained {
        positions.insert(i, position)?;
    }
    Ok(())
}

/// The same, but keeps the position that is there.
#[inline(always)]
pub fn keep_earliest(
    positions: &mut ByIdentifier<u32>,
    alloc: Global,
    over: bool,
    inside: bool,
    gained: Option<u16>,
    lost: Option<u16>,
    position: u32,
) -> Result<(), Memory>
    ensures { OnOk result ((i : ℕ) → kept positions.new i ≡ first_next over inside (is_id i gained) (is_id i lost) position (kept positions.old i)) }
{
    if changes_nothing(over, gained, lost) {
        return Ok(());
    }
    change_earliest(positions, alloc, over, inside, gained, lost, position)
}

// The same, of any event.
#[inline(never)]
fn change_earliest(
    positions: &mut ByIdentifier<u32>,
    alloc: Global,
    over: bool,
    inside: bool,
    gained: Option<u16>,
    lost: Option<u16>,
    position: u32,
) -> Result<(), Memory>
    ensures { OnOk result ((i : ℕ) → kept positions.new i ≡ first_next over inside (is_id i gained) (is_id i lost) position (kept positions.old i)) }
{
    if over {
        *positions = ByIdentifier::new(alloc);
    }
    if !inside {
        return Ok(());
    }
    if let Some(i) = lost {
        positions.remove(i);
    }
    if let Some(i) = gained {
        if !positions.contains(i) {
            positions.insert(i, position)?;
        }
    }
    Ok(())
}

/// The position of the earliest event of a stretch that passes a test, with one event more.
#[inline]
pub fn keep_once(
    over: bool,
    inside: bool,
    passes: bool,
    position: u32,
    old: Option<u32>,
) -> Option<u32>
    ensures { result ≡ once_next over inside passes position old }
{
    let before = if over { None } else { old };
    if inside && passes {
        return before.or(Some(position));
    }
    before
}

/// That of the latest one.
#[inline]
pub fn keep_again(
    over: bool,
    inside: bool,
    passes: bool,
    position: u32,
    old: Option<u32>,
) -> Option<u32>
    ensures { result ≡ again_next over inside passes position old }
{
    if inside && passes {
        return Some(position);
    }
    if over { None } else { old }
}

/// Where a session begins anew, what was gained in the one before joins what was gained in earlier
/// ones.
#[inline]
pub fn keep_earlier(
    earlier: &mut ByIdentifier<()>,
    begins: bool,
    before: &ByIdentifier<u32>,
) -> Result<(), Memory>
    ensures { OnOk result ((i : ℕ) → is_kept earlier.new i ≡ earlier_next begins (is_some (kept before.now i)) (is_kept earlier.old i)) }
{
    if begins {
        earlier.insert_all(before, ())?;
    }
    Ok(())
}

/// The later one of two positions, each of which may be absent.
pub fn later(a: Option<u32>, b: Option<u32>) -> Option<u32>
    ensures { result ≡ later_at a b }
{
    match a {
        Some(first) => match b {
            Some(second) if second >= first => b,
            _ => a,
        },
        None => b,
    }
}

/// A position, if an identifier is in a set.
pub fn only_among(set: &ByIdentifier<()>, i: u16, position: Option<u32>) -> Option<u32>
    ensures { result ≡ only (is_kept set.now i) position }
{
    if set.contains(i) { position } else { None }
}

/// The position that is kept under an identifier.
pub fn position_of(positions: &ByIdentifier<u32>, i: u16) -> Option<u32>
    ensures { result ≡ kept positions.now i }
{
    positions.get(i)
}
