//! Faults that were found twice, and tested ends.
ghost use Rattle.std.specs.Prelude.{◌≡◌, ◌↔◌, true, IfOk};
ghost use Rattle.mq_trail.specs.Comparing.{same_end, same_fault, same_flag, same_further, same_key, same_offset, same_role};

use mq_rules::{Fault, FaultKey, Faults, Further, Memory, Role, Tested};
use std::alloc::Global;

/// Whether these are the same faults.
pub fn same_faults(faults: &Faults, others: &Faults) -> bool
    ensures { (result ≡ true) ↔ (faults.now ≡ others.now) }
{
    let mut left = others.iter();
    for (key, fault) in faults.iter() {
        match left.next() {
            Some((other_key, other)) => {
                if !same_key(*key, *other_key) {
                    return false;
                }
                if !same_fault(*fault, *other) {
                    return false;
                }
            }
            None => return false,
        }
    }
    match left.next() {
        Some(_) => false,
        None => true,
    }
}

// Whether these are one position and one statement.
fn same_key(key: FaultKey, other: FaultKey) -> bool
    ensures { result ≡ same_key key other }
{
    key.position == other.position && key.rule == other.rule
}

// Whether these were decided at one position, in one record, at one offset.
fn same_fault(fault: Fault, other: Fault) -> bool
    ensures { result ≡ same_fault fault other }
{
    fault.decided == other.decided
        && (fault.record_no == other.record_no && same_offset(fault.offset, other.offset))
}

// Whether these are one offset, or there is none.
fn same_offset(offset: Option<u32>, other: Option<u32>) -> bool
    ensures { result ≡ same_offset offset other }
{
    match offset {
        Some(offset) => match other {
            Some(other) => offset == other,
            None => false,
        },
        None => other.is_none(),
    }
}

/// A copy of these faults.
///
/// # Errors
///
/// `Memory` if there is no memory for it.
pub fn copy_of(alloc: Global, faults: &Faults) -> Result<Faults, Memory>
    ensures { IfOk result (λ copy. copy ≡ faults.now) }
{
    let mut copy = Faults::new(alloc);
    for (key, fault) in faults.iter() {
        copy.add(*key, *fault)?;
    }
    Ok(copy)
}

/// Whether these are one tested end, of which releases are recorded in both logs or in neither, and
/// which is judged by the same further statements both times.
pub fn same_end(tested: Tested, other: Tested) -> bool
    ensures { result ≡ same_end tested other }
{
    same_role(tested.role, other.role)
        && (same_flag(tested.releases, other.releases)
            && same_further(tested.further, other.further))
}

// Whether this is one role.
fn same_role(role: Role, other: Role) -> bool
    ensures { result ≡ same_role role other }
{
    match role {
        Role::Client => matches!(other, Role::Client),
        Role::Server => matches!(other, Role::Server),
    }
}

// Whether the same further statements are judged.
fn same_further(further: Further, other: Further) -> bool
    ensures { result ≡ same_further further other }
{
    same_flag(further.on_request, other.on_request)
        && same_flag(further.with_times, other.with_times)
}

// Whether both are true, or neither.
fn same_flag(flag: bool, other: bool) -> bool
    ensures { result ≡ same_flag flag other }
{
    if flag { other } else { !other }
}
