//! Laws of the definitions, each proved as the contract of a function that does nothing.
ghost use Rattle.std.specs.Prelude.{◌≡◌, ◌↔◌, Contains, [], ◌∷◌, ◌++◌, ◌+◌, ◌≤◌, nat_le, ◌&&◌, ◌||◌, ℕ, Bool, List, length, cond, is_some, true, false, Option, Some, None};
ghost use Rattle.std.specs.List.Sorted.{IsStrictlySortedBy};
ghost use Rattle.std.specs.Map.{keys_of};
ghost use Rattle.std.specs.Option.{option_or};
ghost use Rattle.std.specs.FinMap as map;
ghost use Rattle.mq_packet.specs.declared.rule.PacketRule.{PacketRule};
ghost use Rattle.mq_rules.specs.declared.role.Role.{Role};
ghost use Rattle.mq_rules.specs.declared.role.Tested.{Tested};
ghost use Rattle.mq_rules.specs.declared.fate.Fate.{Fate};
ghost use Rattle.mq_rules.specs.declared.rule.Rule.{Rule};
ghost use Rattle.mq_rules.specs.declared.note.Note.{Note};
ghost use Rattle.mq_rules.specs.declared.note.Seen.{Seen};
ghost use Rattle.mq_rules.specs.declared.fault.Fault.{Fault};
ghost use Rattle.mq_rules.specs.declared.faults.FaultKey.{FaultKey};
ghost use Rattle.mq_rules.specs.Words.{is_some_and};
ghost use Rattle.mq_rules.specs.Notes.{is_open, decides, needs_session};
ghost use Rattle.mq_rules.specs.Moments.{Moment, newest, note, moment, is_next};
ghost use Rattle.mq_rules.specs.Connections.{begun, fate, latest_fate, gives_fate, accepts, IsInOrder};
ghost use Rattle.mq_rules.specs.Rules.{binds};
ghost use Rattle.mq_rules.specs.Statements.{on_bytes, on_past, in_session, at_release, statement, is_on_later, breaks_bytes, fails, fails_under};
ghost use Rattle.mq_rules.specs.Steps.{given, turns, JudgedAtOnce, IsLate};
ghost use Rattle.mq_rules.specs.Exchanges.{breaks_E7R};
ghost use Rattle.mq_rules.specs.Faults.{decided, reported, chosen_fault, fault_in, listed_faults};
ghost use Rattle.mq_rules.specs.FaultKeys.{key_cmp, FaultMap, fault_at};

/// What fails with one more event failed already, or turns out to fail with that event.
pub fn failing_turns()
    ensures { (tested : Tested) (e : Seen) (past : List Seen) (k : ℕ) (rule : Rule) → fails tested (e ∷ past) k rule ≡ (fails tested past k rule || turns tested e past k rule) }
{}

/// What fails in a beginning of the log fails in the log.
pub fn failing_stays()
    ensures { (tested : Tested) (past : List Seen) (e : Seen) (k : ℕ) (rule : Rule) → fails tested past k rule ≡ true → fails tested (e ∷ past) k rule ≡ true }
{}

/// A pair is decided exactly if it fails, and has a fault exactly then.
pub fn failing_is_decided()
    ensures decided { (tested : Tested) (log : List Seen) (k : ℕ) (rule : Rule) → is_some (decided tested log k rule) ≡ fails tested log k rule }
    ensures fault { (tested : Tested) (log : List Seen) (k : ℕ) (rule : Rule) → is_some (fault_in tested log k rule) ≡ fails tested log k rule }
{}

/// A log without events has no faults. With one more event each pair keeps the fault that it had; a
/// pair that had none gets one exactly if it turns out to fail, decided at that event.
pub fn faults_grow()
    ensures start { (tested : Tested) (k : ℕ) (rule : Rule) → fault_in tested [] k rule ≡ None }
    ensures step { (tested : Tested) (e : Seen) (past : List Seen) (k : ℕ) (rule : Rule) → fault_in tested (e ∷ past) k rule ≡ option_or (fault_in tested past k rule) (cond (turns tested e past k rule) (Some (reported tested.role (moment (e ∷ past) k) rule (length past + 1))) None) }
{}

/// A statement on a packet's bytes, or on the past of a connection, turns out false at most at the
/// newest event, and there exactly if its predicate is true.
pub fn past_is_judged_at_once()
    ensures bytes { (tested : Tested) (rule : Rule) (bytes : PacketRule) (e : Seen) (past : List Seen) → statement tested.role rule ≡ on_bytes bytes → JudgedAtOnce tested rule e past (binds rule tested && breaks_bytes bytes (newest e past)) }
    ensures past { (tested : Tested) (rule : Rule) (breaks : Moment → Bool) (e : Seen) (past : List Seen) → statement tested.role rule ≡ on_past breaks → JudgedAtOnce tested rule e past (binds rule tested && breaks (newest e past)) }
{}

/// A pair that is decided at a position fails in exactly the beginnings of the log that reach that
/// position. It is in the log, and not before the pair's own.
pub fn decided_is_shortest()
    ensures within { (tested : Tested) (log : List Seen) (n k : ℕ) (rule : Rule) → decided tested log k rule ≡ Some n → (k ≤ n) × (n ≤ length log) }
    ensures reached { (tested : Tested) (later past : List Seen) (n k : ℕ) (rule : Rule) → decided tested (later ++ past) k rule ≡ Some n → fails tested past k rule ≡ nat_le n (length past) }
{}

/// After an OPEN the latest connection is undecided. After any other event it has the fate that it
/// had, or else the one that the event decides.
pub fn latest_fate_goes_on()
    ensures { (role : Role) (e : Seen) (past : List Seen) → latest_fate role (e ∷ past) ≡ cond (is_open e.note) None (option_or (latest_fate role past) (gives_fate role (newest e past))) }
{}

/// An event gives a fate only to the latest connection, if that is undecided before it, and gives
/// the fate that it decides. An OPEN gives none.
pub fn given_fate_is_decided()
    ensures { (role : Role) (e : Seen) (past : List Seen) (c : ℕ) (f : Fate) → given role e past c ≡ Some f → (c ≡ begun past) × (is_open e.note ≡ false) × (gives_fate role (newest e past) ≡ Some f) × (fate role c past ≡ None) }
{}

/// An OPEN doesn't decide a connection, and doesn't need a session.
pub fn open_decides_nothing()
    ensures decides { (role : Role) (note : Note) → is_open note ≡ true → decides role note ≡ None }
    ensures needs { (note : Note) → is_open note ≡ true → needs_session note ≡ false }
{}

/// A statement of a session, or at a RELEASE, whose predicate is late turns out false at most at
/// the newest event. There it depends on the fate that the latest connection had before that event;
/// if it had none, the statement isn't false.
pub fn late_is_judged_at_once()
    ensures session { (tested : Tested) (rule : Rule) (breaks : Fate → Moment → Bool) (e : Seen) (past : List Seen) → statement tested.role rule ≡ in_session breaks → IsLate tested.role breaks (e ∷ past) → JudgedAtOnce tested rule e past (binds rule tested && is_some_and (λ f. accepts f && breaks f (newest e past)) (latest_fate tested.role past)) }
    ensures release { (tested : Tested) (rule : Rule) (breaks : Fate → Moment → Bool) (e : Seen) (past : List Seen) → statement tested.role rule ≡ at_release breaks → IsLate tested.role breaks (e ∷ past) → JudgedAtOnce tested rule e past (binds rule tested && is_some_and (λ f. breaks f (newest e past)) (latest_fate tested.role past)) }
{}

/// A predicate that is true of session packets and RELEASEs alone is late in a log where each of
/// them comes after its CONNACK. That of E7R is late in every log, since a REST binds only after
/// the CONNACK.
pub fn session_packets_are_late()
    ensures ordered { (role : Role) (breaks : Fate → Moment → Bool) (log : List Seen) → ((f : Fate) (m : Moment) → breaks f m ≡ true → needs_session (note m) ≡ true) → IsInOrder role log → IsLate role breaks log }
    ensures rests { (role : Role) (log : List Seen) → IsLate role (λ f. breaks_E7R role) log }
{}

/// In a log where each session packet and RELEASE comes after its CONNACK, every statement of a
/// session and every one at a RELEASE turns out false at most at the newest event, by the fate that
/// the latest connection had before that event.
pub fn sessions_are_judged_at_once()
    ensures session { (tested : Tested) (rule : Rule) (breaks : Fate → Moment → Bool) (e : Seen) (past : List Seen) → statement tested.role rule ≡ in_session breaks → IsInOrder tested.role (e ∷ past) → JudgedAtOnce tested rule e past (binds rule tested && is_some_and (λ f. accepts f && breaks f (newest e past)) (latest_fate tested.role past)) }
    ensures release { (tested : Tested) (rule : Rule) (breaks : Fate → Moment → Bool) (e : Seen) (past : List Seen) → statement tested.role rule ≡ at_release breaks → IsInOrder tested.role (e ∷ past) → JudgedAtOnce tested rule e past (binds rule tested && is_some_and (λ f. breaks f (newest e past)) (latest_fate tested.role past)) }
{}

/// If the latest connection is taken to have a fate, only the newest position can turn out to fail:
/// with the event that decides that fate, with another event while the connection is undecided, and
/// with its OPEN. If that connection has the fate already, what fails under it is what fails. So is it
/// with a statement that a later event shows: it doesn't look at that fate, and any position may
/// turn out to fail.
pub fn fated_failing_turns()
    ensures decides { (tested : Tested) (f : Fate) (e : Seen) (past : List Seen) (k : ℕ) (rule : Rule) → is_on_later tested rule ≡ false → latest_fate tested.role past ≡ None → gives_fate tested.role (newest e past) ≡ Some f → fails tested (e ∷ past) k rule ≡ (fails_under tested f past k rule || (is_next past k && fails tested (e ∷ past) k rule)) }
    ensures goes_on { (tested : Tested) (f : Fate) (e : Seen) (past : List Seen) (k : ℕ) (rule : Rule) → is_on_later tested rule ≡ false → is_open e.note ≡ false → latest_fate tested.role past ≡ None → fails_under tested f (e ∷ past) k rule ≡ (fails_under tested f past k rule || (is_next past k && fails_under tested f (e ∷ past) k rule)) }
    ensures opens { (tested : Tested) (f : Fate) (e : Seen) (past : List Seen) (k : ℕ) (rule : Rule) → is_on_later tested rule ≡ false → is_open e.note ≡ true → fails_under tested f (e ∷ past) k rule ≡ (fails tested past k rule || (is_next past k && fails_under tested f (e ∷ past) k rule)) }
    ensures known { (tested : Tested) (f : Fate) (log : List Seen) (k : ℕ) (rule : Rule) → latest_fate tested.role log ≡ Some f → fails_under tested f log k rule ≡ fails tested log k rule }
    ensures later { (tested : Tested) (f : Fate) (log : List Seen) (k : ℕ) (rule : Rule) → is_on_later tested rule ≡ true → fails_under tested f log k rule ≡ fails tested log k rule }
{}

/// The list of a log's faults has exactly the faults of the statements that are judged, each under
/// its position and statement. It ascends by position, and then by statement, with no pair twice.
pub fn listed_is_failing()
    ensures ordered { (chosen : Rule → Bool) (tested : Tested) (log : List Seen) → IsStrictlySortedBy key_cmp (keys_of (listed_faults chosen tested log)) }
    ensures each { (chosen : Rule → Bool) (tested : Tested) (log : List Seen) (key : FaultKey) (fault : Fault) → Contains (listed_faults chosen tested log) (key, fault) ↔ (chosen_fault chosen tested log key.position key.rule ≡ Some fault) }
{}

/// The finite map that has the fault of each pair has exactly the entries of the list, in its
/// order.
pub fn entries_are_listed()
    ensures { (chosen : Rule → Bool) (tested : Tested) (log : List Seen) (faults : FaultMap) → ((k : ℕ) (rule : Rule) → fault_at faults k rule ≡ chosen_fault chosen tested log k rule) → map.entries faults ≡ listed_faults chosen tested log }
{}
