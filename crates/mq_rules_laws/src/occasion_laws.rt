//! Laws of where statements are put to the test, but for those on a packet's bytes. Each is proved
//! as the contract of a function that does nothing.
ghost use Rattle.std.specs.Prelude.{Option, ◌≡◌, ◌+◌, ◌≤◌, ◌&&◌, ◌||◌, not, [], ◌∷◌, ℕ, Bool, List, length, cond, true, false, Some};
ghost use Rattle.mq_rules.specs.declared.role.Tested.{Tested};
ghost use Rattle.mq_rules.specs.declared.fate.Fate.{Fate};
ghost use Rattle.mq_rules.specs.declared.rule.Rule.{Rule};
ghost use Rattle.mq_rules.specs.declared.note.Seen.{Seen};
ghost use Rattle.mq_rules.specs.Moments.{Moment, newest, position, moments, is_next, count};
ghost use Rattle.mq_rules.specs.Notes.{is_open};
ghost use Rattle.mq_rules.specs.Connections.{latest_fate, accepts, is_binding};
ghost use Rattle.mq_rules.specs.Exchanges.{Exchange, applies_R};
ghost use Rattle.mq_rules.specs.Rules.{binds};
ghost use Rattle.mq_rules.specs.Statements.{Statement, on_past, in_session, at_release, at_rest, is_on_bytes, fails};
ghost use Rattle.mq_rules.specs.Under.{fate_before, is_by_session};
ghost use Rattle.mq_rules.specs.Occasions.{occasion, applies, places, adds_place, applies_under, places_under, adds_place_with, is_first, waiting};

/// Wherever a statement fails it is put to the test.
pub fn failing_applies()
    ensures { (tested : Tested) (log : List Seen) (k : ℕ) (rule : Rule) → is_on_bytes tested rule ≡ false → fails tested log k rule ≡ true → applies tested log k rule ≡ true }
{}

/// What is put to the test with one event more was so already, or turns out to be with that event.
pub fn applying_turns()
    ensures { (tested : Tested) (e : Seen) (past : List Seen) (k : ℕ) (rule : Rule) → applies tested (e ∷ past) k rule ≡ (applies tested past k rule || adds_place tested e past k rule) }
{}

/// What is put to the test in a beginning of the log is so in the log.
pub fn applying_stays()
    ensures { (tested : Tested) (past : List Seen) (e : Seen) (k : ℕ) (rule : Rule) → applies tested past k rule ≡ true → applies tested (e ∷ past) k rule ≡ true }
{}

/// A log without events has no places. With one event more a statement keeps those that it had, and
/// has those that turn out so with that event; in all it has at most as many as there are events.
pub fn places_grow()
    ensures start { (tested : Tested) (rule : Rule) → places tested [] rule ≡ 0 }
    ensures step { (tested : Tested) (e : Seen) (past : List Seen) (rule : Rule) → places tested (e ∷ past) rule ≡ places tested past rule + count (λ m. adds_place tested e past (position m) rule && not (applies tested past (position m) rule)) (moments (e ∷ past)) }
    ensures kept { (tested : Tested) (e : Seen) (past : List Seen) (rule : Rule) → places tested past rule ≤ places tested (e ∷ past) rule }
    ensures most { (tested : Tested) (log : List Seen) (rule : Rule) → places tested log rule ≤ length log }
{}

/// Where an event can only be a place itself, as it is with a statement on the past of a
/// connection, there is one place more or none.
pub fn places_by_one()
    ensures once { (tested : Tested) (rule : Rule) (e : Seen) (past : List Seen) (here : Bool) → ((k : ℕ) → adds_place tested e past k rule ≡ (is_next past k && here)) → places tested (e ∷ past) rule ≡ cond here 1 0 + places tested past rule }
    ensures past { (tested : Tested) (rule : Rule) (test : Moment → Bool) (e : Seen) (past : List Seen) → occasion tested.role rule ≡ Some (on_past test) → places tested (e ∷ past) rule ≡ cond (binds rule tested && test (newest e past)) 1 0 + places tested past rule }
{}

/// A statement has at least as many places as faults, and at least one if it has a fault at any
/// position. One that doesn't bind the tested end has none.
pub fn places_of_faults()
    ensures each { (tested : Tested) (log : List Seen) (rule : Rule) → is_on_bytes tested rule ≡ false → count (λ m. fails tested log (position m) rule) (moments log) ≤ places tested log rule }
    ensures some { (tested : Tested) (log : List Seen) (k : ℕ) (rule : Rule) → is_on_bytes tested rule ≡ false → fails tested log k rule ≡ true → 1 ≤ places tested log rule }
    ensures unbound { (tested : Tested) (log : List Seen) (rule : Rule) → binds rule tested ≡ false → places tested log rule ≡ 0 }
{}

/// Where the latest connection is taken to have a fate, a statement on sessions has with one event
/// more the places that it had, and those that turn out so with that event under that fate: the
/// event alone, but for a REST that binds.
pub fn places_under_a_fate()
    ensures known { (tested : Tested) (log : List Seen) (rule : Rule) → places_under tested (latest_fate tested.role log) log rule ≡ places tested log rule }
    ensures turns { (tested : Tested) (f : Fate) (e : Seen) (past : List Seen) (k : ℕ) (rule : Rule) (s : Statement) → occasion tested.role rule ≡ Some s → is_by_session s ≡ true → applies_under tested (Some f) (e ∷ past) k rule ≡ (applies_under tested (fate_before tested f e past) past k rule || adds_place_with tested f e past k rule) }
    ensures step { (tested : Tested) (f : Fate) (e : Seen) (past : List Seen) (rule : Rule) (s : Statement) → occasion tested.role rule ≡ Some s → is_by_session s ≡ true → places_under tested (Some f) (e ∷ past) rule ≡ places_under tested (fate_before tested f e past) past rule + count (λ m. adds_place_with tested f e past (position m) rule && not (applies_under tested (fate_before tested f e past) past (position m) rule)) (moments (e ∷ past)) }
    ensures session { (tested : Tested) (rule : Rule) (test : Fate → Moment → Bool) → occasion tested.role rule ≡ Some (in_session test) → (f : Fate) (e : Seen) (past : List Seen) → places_under tested (Some f) (e ∷ past) rule ≡ cond (binds rule tested && (accepts f && test f (newest e past))) 1 0 + places_under tested (fate_before tested f e past) past rule }
    ensures release { (tested : Tested) (rule : Rule) (test : Fate → Moment → Bool) → occasion tested.role rule ≡ Some (at_release test) → (f : Fate) (e : Seen) (past : List Seen) → places_under tested (Some f) (e ∷ past) rule ≡ cond (binds rule tested && test f (newest e past)) 1 0 + places_under tested (fate_before tested f e past) past rule }
{}

/// That causes are answered is put to the test by a REST that binds, for all first causes on its
/// connection that wait for one, and by no other event. What waits are the causes since then, or
/// since the OPEN.
pub fn rests_put_to_the_test()
    ensures rest { (tested : Tested) (rule : Rule) (x : Exchange) (e : Seen) (past : List Seen) → occasion tested.role rule ≡ Some (at_rest (applies_R x)) → binds rule tested ≡ true → is_binding tested.role (newest e past) ≡ true → places tested (e ∷ past) rule ≡ places tested past rule + waiting tested rule x past }
    ensures other { (tested : Tested) (rule : Rule) (test : Moment → Moment → Bool) (e : Seen) (past : List Seen) → occasion tested.role rule ≡ Some (at_rest test) → is_binding tested.role (newest e past) ≡ false → places tested (e ∷ past) rule ≡ places tested past rule }
    ensures waits { (tested : Tested) (rule : Rule) (x : Exchange) (e : Seen) (past : List Seen) → occasion tested.role rule ≡ Some (at_rest (applies_R x)) → binds rule tested ≡ true → waiting tested rule x (e ∷ past) ≡ cond (is_first x (newest e past)) 1 0 + cond (is_open e.note || is_binding tested.role (newest e past)) 0 (waiting tested rule x past) }
    ensures any_fate { (tested : Tested) (f : Option Fate) (log : List Seen) (rule : Rule) (test : Moment → Moment → Bool) → occasion tested.role rule ≡ Some (at_rest test) → places_under tested f log rule ≡ places tested log rule }
{}
