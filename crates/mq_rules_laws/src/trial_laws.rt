//! Laws of where statements on a packet's bytes are put to the test. Each is proved as the contract
//! of a function that does nothing.
ghost use Rattle.std.specs.Prelude.{◌≡◌, ◌≤◌, ◌+◌, ◌&&◌, [], ◌∷◌, ℕ, List, length, map, cond, true, false};
ghost use Rattle.mq_log.specs.Events.{Placed};
ghost use Rattle.mq_rules.specs.declared.role.Tested.{Tested};
ghost use Rattle.mq_rules.specs.declared.rule.Rule.{Rule};
ghost use Rattle.mq_rules.specs.Notes.{seen};
ghost use Rattle.mq_rules.specs.Rules.{binds};
ghost use Rattle.mq_rules.specs.Statements.{statement, is_on_bytes, fails};
ghost use Rattle.mq_rules.specs.Trials.{tries_statement, applies_bytes, places_bytes};

/// Wherever a statement on a packet's bytes fails it is put to the test.
pub fn failing_bytes_apply()
    ensures { (tested : Tested) (events : List Placed) (k : ℕ) (rule : Rule) → is_on_bytes tested rule ≡ true → fails tested (map seen events) k rule ≡ true → applies_bytes tested events k rule ≡ true }
{}

/// A log without events has no places. One event more is a place or none, and in all there are at
/// most as many as events. A statement that doesn't bind the tested end has none.
pub fn places_bytes_grow()
    ensures start { (tested : Tested) (rule : Rule) → places_bytes tested [] rule ≡ 0 }
    ensures step { (tested : Tested) (p : Placed) (past : List Placed) (rule : Rule) → places_bytes tested (p ∷ past) rule ≡ cond (binds rule tested && tries_statement (statement tested.role rule) p.event) 1 0 + places_bytes tested past rule }
    ensures most { (tested : Tested) (events : List Placed) (rule : Rule) → places_bytes tested events rule ≤ length events }
    ensures unbound { (tested : Tested) (events : List Placed) (rule : Rule) → binds rule tested ≡ false → places_bytes tested events rule ≡ 0 }
{}
