//! The order of what is due: a queue, from which what is answered is dropped late.
ghost use Rattle.std.specs.Prelude.{◌≡◌, ◌≤◌, ◌*◌, ◌++◌, [], ℕ, Bool, true, OnOk, OnErr, cond, filter, is_some, length};
ghost use Rattle.mq_rules.specs.KeptOrder.{value_under};
ghost use Rattle.mq_rules.specs.Connections.{accepts};
ghost use Rattle.mq_rules.specs.IdentifierCounts.{ids_where};
ghost use Rattle.mq_exchanges.specs.Orderings as keeping;
ghost use Rattle.mq_exchanges.specs.Orderings.{debts_of, first_debt, from_settled, is_late, ordered_by, IsQueue, IsTidied};

use mq_fates::judge_by;
use mq_log::Place3;
use mq_rules::{CountedByIdentifier, Fate, Faults, Memory, Rule};
use std::collections::VecDeque;

/// A cause that fell due at a position, where none was due under its identifier.
#[derive(Clone, Copy)]
pub struct Debt {
    identifier: u16,
    position: u32,
}

// Whether this debt is what is due under its identifier.
#[inline(always)]
fn is_still_due(due: &CountedByIdentifier<Place3>, debt: Debt) -> bool
    ensures { result ≡ keeping.is_still_due (value_under due.now) debt }
{
    match due.get(debt.identifier) {
        Some(place) => place.position == debt.position,
        None => false,
    }
}

// The debt at the front, if there is one. It may have been answered.
#[inline(always)]
fn first_of(queue: &VecDeque<Debt>) -> Option<Debt>
    ensures { result ≡ first_debt queue.now.items }
{
    match queue.front() {
        Some(&debt) => Some(debt),
        None => None,
    }
}

// Whether this debt fell due under this identifier, at this position.
#[inline(always)]
fn is_debt(debt: Debt, identifier: u16, position: u32) -> bool
    ensures { result ≡ keeping.is_debt identifier position debt }
{
    debt.identifier == identifier && position == debt.position
}

/// Takes in that what fell due under an identifier at a position isn't due any more: returns
/// whether something that fell due before it still is. Up to the first of the two all debts are
/// dropped, each once, and so is its own.
#[inline(always)]
pub fn passes_over(
    queue: &mut VecDeque<Debt>,
    due: &CountedByIdentifier<Place3>,
    identifier: u16,
    position: u32,
) -> bool
    ensures queue { queue.new.items ≡ from_settled (value_under due.now) identifier position queue.old.items }
    ensures passes { result ≡ is_late (value_under due.now) identifier position queue.old.items }
{
    while let Some(debt) = first_of(queue) {
        if is_debt(debt, identifier, position) {
            queue.pop_front();
            return false;
        }
        if is_still_due(due, debt) {
            return true;
        }
        queue.pop_front();
    }
    false
}

/// Takes in that a connection begins, or a cause, which fell due or didn't.
#[inline(always)]
pub fn enqueue(
    queue: &mut VecDeque<Debt>,
    at: Place3,
    opens: bool,
    cause: Option<u16>,
    fell: bool,
) -> Result<(), Memory>
    ensures { OnOk result (queue.new.items ≡ cond opens [] (queue.old.items ++ debts_of fell at.position cause)) }
{
    if opens {
        queue.clear();
        return Ok(());
    }
    if let Some(identifier) = cause {
        if fell {
            queue.push_back(Debt {
                identifier,
                position: at.position,
            })?;
        }
    }
    Ok(())
}

// Drops all that is no longer due.
#[inline(never)]
fn drop_all_settled(queue: &mut VecDeque<Debt>, due: &CountedByIdentifier<Place3>)
    ensures { queue.new.items ≡ filter (keeping.is_still_due (value_under due.now)) queue.old.items }
{
    queue.retain(|debt| is_still_due(due, *debt));
}

/// Drops all that is no longer due, once it is more than half of the queue, so that after a cause
/// the queue is at most twice as long as what is due. Each debt that is dropped pays for one that
/// is kept.
#[inline(always)]
pub fn tidy(queue: &mut VecDeque<Debt>, due: &CountedByIdentifier<Place3>, cause: Option<u16>)
    ensures tidied { IsTidied (value_under due.now) queue.old.items queue.new.items }
    ensures bounded { (n : ℕ) (test : ℕ → Bool) → is_some cause ≡ true → IsQueue (value_under due.now) queue.old.items n → ((i : ℕ) → is_some (value_under due.now i) ≡ true → test i ≡ true) → length queue.new.items ≤ 2 * ids_where test }
{
    if cause.is_none() {
        return;
    }
    let most = due.len();
    if queue.len().saturating_sub(most) > most {
        drop_all_settled(queue, due);
    }
}

/// Adds the fault of the statement on the order, if there is one.
#[inline(always)]
pub fn judge_order(
    rule: Option<Rule>,
    broken: bool,
    place: Place3,
    decided: u32,
    faults: &mut Faults,
) -> Result<(), Memory>
    ensures ok { OnOk result (faults.new ≡ ordered_by rule broken place decided faults.old) }
    ensures unchanged { OnErr result (faults.new ≡ faults.old) }
{
    let Some(rule) = rule else {
        return Ok(());
    };
    judge_by(rule, broken, place, decided, faults)?;
    Ok(())
}
