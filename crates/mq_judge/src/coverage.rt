//! How often each statement was put to the test, as reports say it.
ghost use Rattle.std.specs.Prelude.{◌≡◌, ◌++◌, ◌==◌, true, ℕ, List, map, IfOk, OnOk};
ghost use Rattle.mq_log.specs.Events.{Placed};
ghost use Rattle.mq_rules.specs.Notes.{seen as seen_of};
ghost use Rattle.mq_rules.specs.Rules.{all_rules};
ghost use Rattle.mq_watchers.specs.Kinds.{is_counting as counts};
ghost use Rattle.mq_judge.specs.Watching.{IsWatching, IsTallying};
ghost use Rattle.mq_choice.specs.Choices.{in_choice};
ghost use Rattle.mq_judge.specs.Coverage.{chosen_row, is_foreign as foreign, is_listed as listed, listed_row, rows_among};

use super::watching::Watching;
use mq_choice::Choice;
use mq_report::Covered;
use mq_rules::{Memory, Role, Rule, Tested};
use std::alloc::Global;

/// The rows of a report: each chosen statement that is listed, in the order of reports, with its
/// places among the events so far.
///
/// # Errors
///
/// `Memory` if there is no memory for them.
pub fn coverage(alloc: Global, watching: &Watching, choice: Choice) -> Result<Vec<Covered>, Memory>
    ensures { (events : List Placed) → counts watching.now.watchers ≡ true → IsWatching watching.now (map seen_of events) → IsTallying watching.now events → IfOk result (λ rows. rows.items ≡ rows_among (in_choice choice) watching.now.tested events all_rules) }
{
    rows_of(alloc, watching, choice, Rule::all())
}

// The rows of these statements.
//
// Errors: `Memory` if there is no memory for them.
fn rows_of(
    alloc: Global,
    watching: &Watching,
    choice: Choice,
    rules: &[Rule],
) -> Result<Vec<Covered>, Memory>
    ensures { (events : List Placed) → counts watching.now.watchers ≡ true → IsWatching watching.now (map seen_of events) → IsTallying watching.now events → IfOk result (λ rows. rows.items ≡ rows_among (in_choice choice) watching.now.tested events rules.now) }
{
    let mut rows = Vec::new(alloc);
    for rule in rules {
        add_chosen(&mut rows, watching, choice, *rule)?;
    }
    Ok(rows)
}

// Adds the row of a statement, if it is chosen and listed.
//
// Errors: `Memory` if there is no memory for it.
fn add_chosen(
    rows: &mut Vec<Covered>,
    watching: &Watching,
    choice: Choice,
    rule: Rule,
) -> Result<(), Memory>
    ensures { (events : List Placed) → counts watching.now.watchers ≡ true → IsWatching watching.now (map seen_of events) → IsTallying watching.now events → OnOk result (rows.new.items ≡ rows.old.items ++ chosen_row (in_choice choice) watching.now.tested events rule) }
{
    if choice.has(rule) {
        add_row(rows, watching, rule)
    } else {
        Ok(())
    }
}

// Adds the row of a statement, if it is listed.
//
// Errors: `Memory` if there is no memory for it.
fn add_row(rows: &mut Vec<Covered>, watching: &Watching, rule: Rule) -> Result<(), Memory>
    ensures { (events : List Placed) → counts watching.now.watchers ≡ true → IsWatching watching.now (map seen_of events) → IsTallying watching.now events → OnOk result (rows.new.items ≡ rows.old.items ++ listed_row watching.now.tested events rule) }
{
    let places = watching.places(rule);
    if !is_listed(watching.tested(), rule, places) {
        return Ok(());
    }
    rows.push(Covered { rule, places })?;
    Ok(())
}

// Whether a statement with so many places is listed: it binds the tested end, and is about what
// that end sends, or has a place all the same.
fn is_listed(tested: Tested, rule: Rule, places: u32) -> bool
    ensures { result ≡ listed tested rule places }
{
    rule.is_judged(tested) && (!is_foreign(tested.role, rule) || places != 0)
}

// Whether a statement is about packets that only the other end sends.
fn is_foreign(role: Role, rule: Rule) -> bool
    ensures { result ≡ foreign role rule }
{
    match role {
        Role::Client => rule == Rule::W20,
        Role::Server => {
            rule == Rule::W15
                || (rule == Rule::W16
                    || (rule == Rule::W17 || (rule == Rule::W18 || rule == Rule::W19)))
        }
    }
}
