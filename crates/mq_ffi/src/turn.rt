//! Giving the faults that a choice leaves, one by one, in the order in which events show them.
ghost use Rattle.std.specs.FinMap as map;
ghost use Rattle.std.specs.Prelude.{◌≡◌, Some, None};
ghost use Rattle.mq_ffi.specs.Asking.{IsRowOf, left_by, nth};
ghost use Rattle.mq_ffi.specs.Giving.{shown_by, Gives, GivesMore, GivesFirst, earliest_after, sooner_after};

use crate::asking::leaves;
use crate::fault::FaultRow;
use mq_choice::Choice;
use mq_rules::Faults;

/// Up to which fault they were given. They come by the event that shows them, and those that one
/// event shows in the order of reports.
#[derive(Clone, Copy)]
pub struct Turn {
    /// The number of the event that showed the one that was given last, or 0.
    pub event: u32,
    /// How many of the faults that this event shows were given.
    pub given: usize,
}

/// The fault that comes next, of those that a choice leaves, if there is one, and what was given
/// with it.
pub fn next_in_turn(faults: &Faults, choice: Choice, turn: Turn) -> Option<(FaultRow, Turn)>
    ensures { Gives turn (left_by choice (map.entries faults.now)) result }
{
    match one_more(faults, choice, turn) {
        Some(next) => Some(next),
        None => first_of_next(faults, choice, turn.event),
    }
}

// The next one of those that the same event shows, if there is one. It shows no more than there
// are.
fn one_more(faults: &Faults, choice: Choice, turn: Turn) -> Option<(FaultRow, Turn)>
    ensures { GivesMore turn (left_by choice (map.entries faults.now)) result }
{
    if turn.given >= faults.len() {
        return None;
    }
    let row = fault_shown_by(faults, choice, turn.event, turn.given)?;
    let next = Turn {
        event: turn.event,
        given: turn.given + 1,
    };
    Some((row, next))
}

// The first one of those that the next event with faults shows, if there is one.
fn first_of_next(faults: &Faults, choice: Choice, after: u32) -> Option<(FaultRow, Turn)>
    ensures { GivesFirst after (left_by choice (map.entries faults.now)) result }
{
    match next_event(faults, choice, after) {
        Some(event) => first_shown_by(faults, choice, event, after),
        None => None,
    }
}

// The first one of those that an event shows, which is the first event after another one that shows
// any.
fn first_shown_by(
    faults: &Faults,
    choice: Choice,
    event: u32,
    after: u32,
) -> Option<(FaultRow, Turn)>
    requires { earliest_after after None (left_by choice (map.entries faults.now)) ≡ Some event }
    ensures { GivesFirst after (left_by choice (map.entries faults.now)) result }
{
    match fault_shown_by(faults, choice, event, 0) {
        Some(row) => Some((row, Turn { event, given: 1 })),
        None => None,
    }
}

// The fault at this index among those that an event shows, in the order of reports, if there are so
// many.
fn fault_shown_by(faults: &Faults, choice: Choice, event: u32, index: usize) -> Option<FaultRow>
    ensures { IsRowOf (nth (shown_by event (left_by choice (map.entries faults.now))) index) result }
{
    let mut left = index;
    for (key, fault) in faults.iter() {
        if leaves(choice, key.rule) {
            if fault.decided == event {
                if left == 0 {
                    return Some(FaultRow::of(*key, *fault));
                }
                left -= 1;
            }
        }
    }
    None
}

// The first event after this one that shows a fault, if there is one.
fn next_event(faults: &Faults, choice: Choice, after: u32) -> Option<u32>
    ensures { result ≡ earliest_after after None (left_by choice (map.entries faults.now)) }
{
    let mut earliest = None;
    for (key, fault) in faults.iter() {
        if leaves(choice, key.rule) {
            earliest = sooner(earliest, fault.decided, after);
        }
    }
    earliest
}

// The earlier of two events that come after a third one.
fn sooner(earliest: Option<u32>, event: u32, after: u32) -> Option<u32>
    ensures { result ≡ sooner_after after earliest event }
{
    if event <= after {
        return earliest;
    }
    match earliest {
        Some(other) => Some(other.min(event)),
        None => Some(event),
    }
}
