//! Asking for one fault of many.
ghost use Rattle.std.specs.Prelude.{◌≡◌, length};
ghost use Rattle.std.specs.FinMap as map;
ghost use Rattle.mq_rules.specs.FaultKeys.{faults_at};
ghost use Rattle.mq_ffi.specs.Asking.{IsRowOf, nth, first_fault_from, fault_asked, leaves as leaves_of, left_by};

use crate::fault::FaultRow;
use mq_choice::Choice;
use mq_rules::{Faults, Rule};

/// Which fault is asked for.
#[derive(Clone, Copy)]
pub enum Which {
    /// The one at this index, in the order of reports.
    At(usize),
    /// The one at this index among those at this position, in the order of the statements.
    Beside(u32, usize),
    /// The first one at this position or after it, in the order of reports.
    From(u32),
}

/// Whether a choice leaves the faults of a statement. Without a list it leaves all, since no
/// statements are judged then that aren't chosen.
pub fn leaves(choice: Choice, rule: Rule) -> bool
    ensures { result ≡ leaves_of choice rule }
{
    if choice.is_listed() {
        choice.has(rule)
    } else {
        true
    }
}

/// How many faults a choice leaves.
pub fn count_left(faults: &Faults, choice: Choice) -> usize
    ensures { result ≡ length (left_by choice (map.entries faults.now)) }
{
    let all = faults.len();
    if !choice.is_listed() {
        return all;
    }
    let mut count = 0;
    for (key, _fault) in faults.iter() {
        if leaves(choice, key.rule) {
            count += 1;
        }
    }
    count
}

/// The fault that is asked for, of those that a choice leaves, if there is one.
pub fn asked_of(faults: &Faults, choice: Choice, which: Which) -> Option<FaultRow>
    ensures { IsRowOf (fault_asked which (left_by choice (map.entries faults.now))) result }
{
    match which {
        Which::At(index) => fault_at_index(faults, choice, index),
        Which::Beside(position, index) => fault_at_position(faults, choice, position, index),
        Which::From(position) => fault_from(faults, choice, position),
    }
}

// The fault at this index, in the order of reports, if a choice leaves so many.
fn fault_at_index(faults: &Faults, choice: Choice, index: usize) -> Option<FaultRow>
    ensures { IsRowOf (nth (left_by choice (map.entries faults.now)) index) result }
{
    let mut left = index;
    for (key, fault) in faults.iter() {
        if leaves(choice, key.rule) {
            if left == 0 {
                return Some(FaultRow::of(*key, *fault));
            }
            left -= 1;
        }
    }
    None
}

// The fault at this index among those at a position, in the order of the statements, if a choice
// leaves so many.
fn fault_at_position(
    faults: &Faults,
    choice: Choice,
    position: u32,
    index: usize,
) -> Option<FaultRow>
    ensures { IsRowOf (nth (faults_at position (left_by choice (map.entries faults.now))) index) result }
{
    let mut left = index;
    for (key, fault) in faults.at(position) {
        if leaves(choice, key.rule) {
            if left == 0 {
                return Some(FaultRow::of(*key, *fault));
            }
            left -= 1;
        }
    }
    None
}

// The first fault that a choice leaves at this position or after it, in the order of reports, if
// there is one.
fn fault_from(faults: &Faults, choice: Choice, position: u32) -> Option<FaultRow>
    ensures { IsRowOf (first_fault_from position (left_by choice (map.entries faults.now))) result }
{
    if choice.is_listed() {
        return left_from(faults, choice, position);
    }
    let first = faults.first_from(position)?;
    fault_at_position(faults, choice, first, 0)
}

// The same, found by asking one fault after the other.
fn left_from(faults: &Faults, choice: Choice, position: u32) -> Option<FaultRow>
    ensures { IsRowOf (first_fault_from position (left_by choice (map.entries faults.now))) result }
{
    for (key, fault) in faults.iter() {
        if leaves(choice, key.rule) {
            if position <= key.position {
                return Some(FaultRow::of(*key, *fault));
            }
        }
    }
    None
}
