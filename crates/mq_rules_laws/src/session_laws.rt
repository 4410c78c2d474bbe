//! Laws of connections, fates, sessions and order, each proved as the contract of a function that
//! does nothing.
ghost use Rattle.std.specs.Prelude.{◌≡◌, ◌<◌, ◌≤◌, ◌==◌, ◌∷◌, ◌++◌, ◌↔◌, [], ℕ, List, length, Option, Some, None, cond, is_some, Bool, true, false, ◌&&◌, not};
ghost use Rattle.std.specs.Option.{option_or};
ghost use Rattle.mq_log.specs.Refusals.{refused};
ghost use Rattle.mq_rules.specs.declared.role.Further.{Further};
ghost use Rattle.mq_rules.specs.declared.role.Role.{Role};
ghost use Rattle.mq_rules.specs.declared.fate.Fate.{Fate};
ghost use Rattle.mq_rules.specs.declared.note.Seen.{Seen};
ghost use Rattle.mq_rules.specs.Notes.{is_open, seen_in, tested_by};
ghost use Rattle.mq_rules.specs.Moments.{Moment, newest, moments, some, since, latest, Among, IsPlaced};
ghost use Rattle.mq_rules.specs.Connections.{begun, connection, fate, latest_fate, gives_fate, begins, has_session, session, fate_under, IsInSession, is_alive_after, IsAlive, IsInOrder, AreOnConnections};
ghost use Rattle.mq_rules.specs.Under.{IsInTurn};
ghost use Rattle.mq_rules.specs.Folds.{folded, ByPackets, where_in, kept_by, session_since, gained, since_by, some_by, latest_by};

/// An OPEN begins a connection, and any other event belongs to the latest one.
pub fn connection_goes_on()
    ensures { (e : Seen) (past : List Seen) → connection (e ∷ past) ≡ cond (is_open e.note) (newest e past ∷ []) (newest e past ∷ connection past) }
{}

/// A connection's fate, once decided, is the same in every longer log. So is the fate of a
/// connection that isn't the latest one.
pub fn fate_stays()
    ensures decided { (role : Role) (c : ℕ) (f : Fate) (later past : List Seen) → fate role c past ≡ Some f → fate role c (later ++ past) ≡ Some f }
    ensures followed { (role : Role) (c : ℕ) (later past : List Seen) → c < begun past → fate role c (later ++ past) ≡ fate role c past }
{}

/// One more event can decide only its own connection, if that is undecided. An OPEN begins an
/// undecided one.
pub fn event_decides_its_connection()
    ensures any { (role : Role) (c : ℕ) (e : Seen) (past : List Seen) → fate role c (e ∷ past) ≡ option_or (fate role c past) (cond (begun (e ∷ past) == c) (gives_fate role (newest e past)) None) }
    ensures latest { (role : Role) (e : Seen) (past : List Seen) → latest_fate role (e ∷ past) ≡ cond (is_open e.note) None (option_or (latest_fate role past) (gives_fate role (newest e past))) }
{}

/// `since`, `some` and `latest` are folds.
pub fn words_are_folds()
    ensures since { (starts ends : Moment → Bool) (ms : List Moment) → since starts ends ms ≡ folded (since_by starts ends) false ms }
    ensures some { (test : Moment → Bool) (ms : List Moment) → some test ms ≡ folded (some_by test) false ms }
    ensures latest { (test : Moment → Bool) (ms : List Moment) → latest test ms ≡ folded (latest_by test) None ms }
{}

/// What a reader keeps of the session after one more event. In a log in order, if only session
/// packets change it, it follows from the fate of the latest connection before the event.
pub fn fold_goes_on<A>()
    ensures under { (g : Moment → A → A) (z : A) (role : Role) (f : Option Fate) (e : Seen) (past : List Seen) → folded g z (session role f (e ∷ past))
        ≡ where_in (has_session role f e past) (g (newest e past)) (cond (is_open e.note) (cond (begins f) z (folded g z (session role (latest_fate role past) past))) (folded g z (session role f past))) }
    ensures in_order { (g : Moment → A → A) (z : A) → ByPackets g → (role : Role) (e : Seen) (past : List Seen) → IsInOrder role (e ∷ past)
        → folded g z (session role (latest_fate role (e ∷ past)) (e ∷ past)) ≡ kept_by role (latest_fate role past) e.note (g (newest e past)) z (folded g z (session role (latest_fate role past) past)) }
{}

/// `since` in a session, with one more event, if the latest connection has this fate.
pub fn since_goes_on()
    ensures { (role : Role) (starts ends : Moment → Bool) (f : Option Fate) (e : Seen) (past : List Seen) → session_since role starts ends f (e ∷ past)
        ≡ gained (has_session role f e past) (starts (newest e past)) (ends (newest e past)) (cond (is_open e.note) (not (begins f) && session_since role starts ends (latest_fate role past) past) (session_since role starts ends f past)) }
{}

/// The session is alive after connection c exactly if some connection up to c is accepted with a
/// Session Expiry Interval other than 0, or isn't accepted and may have been, and none after it up
/// to c is accepted (MQTT 5.0, section 4.1).
pub fn alive_by_connections()
    ensures { (role : Role) (c : ℕ) (log : List Seen) → (is_alive_after role c log ≡ true) ↔ IsAlive role c log }
{}

/// In a log that isn't refused the place of each event has its position, a connection that isn't
/// decided has at most 4,096 events, each connection is decided before the next one begins, and
/// nothing is sent or received, no REST and no CLOSE comes, but on an open connection.
pub fn unrefused_logs_are_orderly()
    ensures placed { (limit : ℕ) (bytes : List ℕ) → refused limit bytes ≡ None → IsPlaced (seen_in bytes) }
    ensures few { (limit : ℕ) (further : Further) (bytes : List ℕ) → refused limit bytes ≡ None → latest_fate (tested_by further bytes).role (seen_in bytes) ≡ None → length (connection (seen_in bytes)) ≤ 4096 }
    ensures in_turn { (limit : ℕ) (further : Further) (bytes : List ℕ) → refused limit bytes ≡ None → IsInTurn (tested_by further bytes).role (seen_in bytes) }
    ensures on_connections { (limit : ℕ) (bytes : List ℕ) → refused limit bytes ≡ None → AreOnConnections (seen_in bytes) }
{}

/// Which moments are in a session: those that are on an accepted connection, or are a RELEASE that
/// belongs to an earlier accepted one, and after whose connection each accepted one is resumed.
pub fn session_by_positions()
    ensures { (role : Role) (f : Option Fate) (log : List Seen) (m : Moment) → Among m (session role f log) ↔ (Among m (moments log) × IsInSession (fate_under role f log) (begun log) m) }
{}
