//! Laws of the words on moments, which define each by positions. Each is proved as the contract of
//! a function that does nothing.
ghost use Rattle.std.specs.Prelude.{◌≡◌, ◌≤◌, ◌∷◌, ◌↔◌, ℕ, Bool, List, Option, Some, None, length, take, is_some, true, false};
ghost use Rattle.mq_rules.specs.declared.role.Role.{Role};
ghost use Rattle.mq_rules.specs.declared.fate.Fate.{Fate};
ghost use Rattle.mq_rules.specs.declared.note.Note.{Note};
ghost use Rattle.mq_rules.specs.declared.note.Seen.{Seen};
ghost use Rattle.mq_rules.specs.Moments.{Moment, position, note, moments, moment, some, since, those, latest, first_found, earliest_since, count, some_stretch, Among, IsMomentAt, IsDescending, HoldsSince, IsLatest, IsFirstFound, IsEarliestSince, IsPlaced};
ghost use Rattle.mq_rules.specs.Connections.{connection, of_connection, session};

/// The moment at a position of the log is the event there with all that comes before it; no other
/// position has a moment. The moments of a log are those of its positions. If the places of the
/// events have their positions, so has the place of a moment's event.
pub fn moments_by_positions()
    ensures beginning { (log : List Seen) (k : ℕ) (m : Moment) → (moment log k ≡ Some m) ↔ IsMomentAt log k m }
    ensures among { (log : List Seen) (m : Moment) → Among m (moments log) ↔ (moment log (position m) ≡ Some m) }
    ensures placed { (log : List Seen) (k : ℕ) (m : Moment) → IsPlaced log → moment log k ≡ Some m → m.event.place.position ≡ k }
{}

/// Each scope in which statements look back has its moments in the order of their positions, the
/// latest one first, and each one once.
pub fn scopes_descend()
    ensures all { (log : List Seen) → IsDescending (moments log) }
    ensures those { (test : Moment → Bool) (ms : List Moment) → IsDescending ms → IsDescending (those test ms) }
    ensures of_connection { (c : ℕ) (log : List Seen) → IsDescending (of_connection c log) }
    ensures connection { (log : List Seen) → IsDescending (connection log) }
    ensures session { (role : Role) (f : Option Fate) (log : List Seen) → IsDescending (session role f log) }
{}

/// `since`: some moment passes the first test, and none at a later position passes the second.
pub fn since_by_positions()
    ensures { (starts ends : Moment → Bool) (ms : List Moment) → IsDescending ms → (since starts ends ms ≡ true) ↔ HoldsSince starts ends ms }
{}

/// `some`: some moment passes the test. `those`: the moments that pass it. `count`: how many those
/// are.
pub fn tests_by_positions()
    ensures some { (test : Moment → Bool) (ms : List Moment) → (some test ms ≡ true) ↔ ((m : Moment) × Among m ms × (test m ≡ true)) }
    ensures those { (test : Moment → Bool) (ms : List Moment) (m : Moment) → Among m (those test ms) ↔ (Among m ms × (test m ≡ true)) }
    ensures count { (test : Moment → Bool) (ms : List Moment) → count test ms ≡ length (those test ms) }
{}

/// `latest`: the moment that passes the test at the latest position, if one passes it.
pub fn latest_by_positions()
    ensures there { (test : Moment → Bool) (ms : List Moment) (at : Moment) → IsDescending ms → (latest test ms ≡ Some at) ↔ IsLatest test ms at }
    ensures none { (test : Moment → Bool) (ms : List Moment) → (latest test ms ≡ None) ↔ ((m : Moment) → Among m ms → test m ≡ false) }
{}

/// `first_found`: what is found at the earliest position that has something, if one has.
pub fn first_found_by_positions<A>()
    ensures there { (found : Note → Option A) (ms : List Moment) (a : A) → IsDescending ms → (first_found found ms ≡ Some a) ↔ IsFirstFound found ms a }
    ensures none { (found : Note → Option A) (ms : List Moment) → (first_found found ms ≡ None) ↔ ((m : Moment) → Among m ms → found (note m) ≡ None) }
{}

/// `earliest_since`: the earliest moment that passes the first test with no later one that passes
/// the second; there is one exactly if `since` says so.
pub fn earliest_since_by_positions()
    ensures at { (starts ends : Moment → Bool) (ms : List Moment) (at : Moment) → IsDescending ms → (earliest_since starts ends ms ≡ Some at) ↔ IsEarliestSince starts ends ms at }
    ensures there { (starts ends : Moment → Bool) (ms : List Moment) → is_some (earliest_since starts ends ms) ≡ since starts ends ms }
{}

/// `some_stretch`: some number of the newest moments passes the test together.
pub fn some_stretch_by_positions()
    ensures { (test : List Moment → Bool) (ms : List Moment) → (some_stretch test ms ≡ true) ↔ ((n : ℕ) × (n ≤ length ms) × (test (take n ms) ≡ true)) }
{}
