//! What an event shows, as the contract of a function that does nothing.
ghost use Rattle.std.specs.Prelude.{◌≡◌, ◌<◌, ◌≤◌, ◌++◌, ℕ, List, [], length};
ghost use Rattle.std.specs.FinMap as map;
ghost use Rattle.mq_log.specs.Events.{events};
ghost use Rattle.mq_rules.specs.declared.role.Further.{Further};
ghost use Rattle.mq_rules.specs.FaultKeys.{FaultMap};
ghost use Rattle.mq_judge.specs.Judging.{AreFaultsOf};
ghost use Rattle.mq_choice.specs.declared.choice.Choice.{Choice};
ghost use Rattle.mq_ffi.specs.Asking.{left_by};
ghost use Rattle.mq_ffi.specs.Giving.{shown_by};

/// An event shows the same faults that a choice leaves, whatever bytes follow; and no fault is
/// shown by an event that isn't in the log yet. So the faults that come after those of the last
/// event are new, and nothing is missed by whoever asks for them in this order.
pub fn what_an_event_shows_stays()
    ensures stays { (choice : Choice) (further : Further) (log more : List ℕ) (known later : FaultMap) → AreFaultsOf further log known → AreFaultsOf further (log ++ more) later → (event : ℕ) → event ≤ length (events log) → shown_by event (left_by choice (map.entries later)) ≡ shown_by event (left_by choice (map.entries known)) }
    ensures none_yet { (choice : Choice) (further : Further) (log : List ℕ) (known : FaultMap) → AreFaultsOf further log known → (event : ℕ) → length (events log) < event → shown_by event (left_by choice (map.entries known)) ≡ [] }
{}
