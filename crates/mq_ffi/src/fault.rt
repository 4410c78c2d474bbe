//! A fault, as C reads it.
ghost use Rattle.std.specs.Prelude.{◌≡◌, Some};
ghost use Rattle.mq_ffi.specs.Asking.{IsRow, chosen_at, if_chosen, statement_at, role_at};

use mq_choice::Choice;
use mq_rules::{Fault, FaultKey, Role, Rule};

/// A fault. C's `mqjudge_fault` has the same fields, in this order.
#[repr(C)]
#[derive(Clone, Copy, Debug, PartialEq, Eq)]
pub struct FaultRow {
    /// The event's number among the events, counted from 1.
    pub position: u32,
    /// The number of the statement that is false there, in the order of reports, counted from 0.
    pub statement: u32,
    /// The last position of the shortest beginning of the log in which the statement is false
    /// there.
    pub decided: u32,
    /// The number of the record of the fault's position.
    pub record: u32,
    /// 1 if the fault has an offset, and else 0.
    pub has_offset: u32,
    /// For a rule on a packet's bytes, where in the packet it is broken.
    pub offset: u32,
}

impl FaultRow {
    /// A fault with its key.
    pub fn of(key: FaultKey, fault: Fault) -> FaultRow
        ensures { IsRow result (key, fault) }
    {
        FaultRow {
            position: key.position,
            statement: number_of(key.rule),
            decided: fault.decided,
            record: fault.record_no,
            has_offset: u32::from(fault.offset.is_some()),
            offset: fault.offset.unwrap_or(0),
        }
    }
}

/// The number of a statement, in the order of reports, counted from 0.
pub fn number_of(rule: Rule) -> u32
    ensures { statement_at result ≡ Some rule }
{
    rule as u32
}

/// The statement with this number, if there is one.
pub fn statement_at(number: u32) -> Option<Rule>
    ensures { result ≡ statement_at number }
{
    Rule::all().get(number as usize).copied()
}

/// The statement with this number, if there is one that is chosen.
pub fn chosen_at(choice: Choice, number: u32) -> Option<Rule>
    ensures { result ≡ chosen_at choice number }
{
    match statement_at(number) {
        Some(rule) => if_chosen(choice, rule),
        None => None,
    }
}

// The statement, if it is chosen.
fn if_chosen(choice: Choice, rule: Rule) -> Option<Rule>
    ensures { result ≡ if_chosen choice (Some rule) }
{
    if choice.has(rule) { Some(rule) } else { None }
}

/// The end with this number: 0 is a client, 1 a server.
pub fn role_at(number: u32) -> Option<Role>
    ensures { result ≡ role_at number }
{
    match number {
        0 => Some(Role::Client),
        1 => Some(Role::Server),
        _ => None,
    }
}
