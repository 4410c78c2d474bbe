//! Laws of statements, which say the same in other words. Each is proved as the contract of a
//! function that does nothing.
ghost use Rattle.std.specs.Prelude.{◌≡◌, ◌+◌, ◌==◌, ◌∷◌, ◌&&◌, ◌↔◌, nat_lt, nat_le, ℕ, true, false, List, Option, Some};
ghost use Rattle.mq_rules.specs.declared.role.Role.{Role};
ghost use Rattle.mq_rules.specs.declared.fate.Fate.{Fate};
ghost use Rattle.mq_rules.specs.declared.note.Seen.{Seen};
ghost use Rattle.mq_rules.specs.Words.{is_some_and};
ghost use Rattle.mq_rules.specs.Moments.{Moment, note, moments, moment, is_after, some, those, count, some_stretch, Among};
ghost use Rattle.mq_rules.specs.Connections.{connection, is_beside, is_binding};
ghost use Rattle.mq_rules.specs.Pasts.{peer_receive_maximum};
ghost use Rattle.mq_rules.specs.Identifiers.{is_delivery, is_closer, counts, passes, breaks_S07, is_used_up};
ghost use Rattle.mq_rules.specs.Exchanges.{Exchange, shows_R};
ghost use Rattle.mq_rules.specs.Statements.{at_rest, is_so};
ghost use Rattle.mq_rules.specs.Counter.{in_flight, in_flight_before, quota, keeps_quota};
ghost use Rattle.mq_rules.specs.FirstRests.{binds_after, first_rest, IsFirstRest};
ghost use Rattle.mq_rules.specs.FurtherRests.{shows_D01, shows_D02, shows_D03, shows_D05};
ghost use Rattle.mq_rules.specs.Notes.{is_rest};

/// The send quota by a counter (MQTT 5.0, section 4.9). Over the stretches that end with the newest
/// of some moments, the greatest surplus of PUBLISHes over closers is the value of a counter of
/// those in flight. So S07 is false at a PUBLISH that is sent while as many as the Receive Maximum
/// are in flight, and the quota is used up while as many are. Up to the first PUBLISH that is sent
/// while the quota is 0, the quota and the number in flight add up to the Receive Maximum; so that
/// PUBLISH is the first one with too many in flight.
pub fn in_flight_by_a_counter()
    ensures apart { (m : Moment) → is_delivery m ≡ true → is_closer m ≡ false }
    ensures more { (most : ℕ) (ms : List Moment) → passes most ms ≡ nat_lt most (in_flight ms) }
    ensures as_many { (most : ℕ) (ms : List Moment) → some_stretch (λ stretch. nat_le (most + count is_closer stretch) (count is_delivery stretch)) ms ≡ nat_le most (in_flight ms) }
    ensures after { (role : Role) (k : Moment) → breaks_S07 role k ≡ (is_delivery k && (counts role k && nat_lt (peer_receive_maximum role k) (in_flight (k ∷ those (counts role) (connection k.past))))) }
    ensures before { (role : Role) (k : Moment) → breaks_S07 role k ≡ (is_delivery k && (counts role k && nat_le (peer_receive_maximum role k) (in_flight_before role k))) }
    ensures left { (most : ℕ) (ms : List Moment) → keeps_quota most ms ≡ true → quota most ms + in_flight ms ≡ most }
    ensures first { (most : ℕ) (m : Moment) (ms : List Moment) → keeps_quota most ms ≡ true → passes most (m ∷ ms) ≡ (is_delivery m && (quota most ms == 0)) }
    ensures used_up { (role : Role) (t : Moment) → is_used_up role t ≡ nat_le (peer_receive_maximum role t) (in_flight_before role t) }
{}

/// E1R to E6R, by the first REST that binds after a cause on the cause's connection (MQTT 5.0,
/// sections 4.3, 3.8.4 and 3.10.4). What a later REST shows, each earlier one after the cause shows
/// too. So the statement is false at a cause exactly if there is a first such REST and it shows so.
pub fn first_rest_decides()
    ensures earlier { (role : Role) (x : Exchange) (log : List Seen) (k t u : Moment) → Among k (moments log) → Among t (moments log) → Among u (moments log)
        → binds_after role k u ≡ true → is_after t u ≡ true → shows_R x t k ≡ true → shows_R x u k ≡ true }
    ensures first { (role : Role) (k : Moment) (log : List Seen) (t : Moment) → (first_rest role k log ≡ Some t) ↔ IsFirstRest role k log t }
    ensures shown { (role : Role) (x : Exchange) (log : List Seen) (k : Moment) → Among k (moments log)
        → some (λ t. is_after t k && (is_binding role t && shows_R x t k)) (moments log) ≡ is_some_and (λ t. shows_R x t k) (first_rest role k log) }
    ensures at { (role : Role) (fates : ℕ → Option Fate) (x : Exchange) (log : List Seen) (n : ℕ)
        → is_so role fates (at_rest (shows_R x)) log n ≡ is_some_and (λ k. is_some_and (λ t. shows_R x t k) (first_rest role k log)) (moment log n) }
{}

/// D01, by the first REST after the Malformed Packet, D02, by the first one after the second
/// CONNECT, D03, by the first one after the Protocol Error, and D05, by the first one after the
/// PUBLISH above the Receive Maximum, on its connection (MQTT 5.0, sections 4.13.1, 3.1 and 3.3.4).
/// If a later REST there shows that the server hasn't closed the connection, each earlier one after
/// the error shows that too: so the first one decides it. It isn't so with C24: at the first REST
/// after a CONNECT the server may wait for an AUTH, and at a later one no longer.
pub fn first_open_rest_decides()
    ensures malformed { (log : List Seen) (k t u : Moment) → Among k (moments log) → Among t (moments log) → Among u (moments log) → is_after u k ≡ true → is_after t u ≡ true
        → is_beside u k ≡ true → is_beside t k ≡ true → is_rest (note u) ≡ true → shows_D01 t k ≡ true → shows_D01 u k ≡ true }
    ensures repeated { (log : List Seen) (k t u : Moment) → Among k (moments log) → Among t (moments log) → Among u (moments log) → is_after u k ≡ true → is_after t u ≡ true
        → is_beside u k ≡ true → is_beside t k ≡ true → is_rest (note u) ≡ true → shows_D02 t k ≡ true → shows_D02 u k ≡ true }
    ensures mistaken { (log : List Seen) (k t u : Moment) → Among k (moments log) → Among t (moments log) → Among u (moments log) → is_after u k ≡ true → is_after t u ≡ true
        → is_beside u k ≡ true → is_beside t k ≡ true → is_rest (note u) ≡ true → shows_D03 t k ≡ true → shows_D03 u k ≡ true }
    ensures excessive { (log : List Seen) (k t u : Moment) → Among k (moments log) → Among t (moments log) → Among u (moments log) → is_after u k ≡ true → is_after t u ≡ true
        → is_beside u k ≡ true → is_beside t k ≡ true → is_rest (note u) ≡ true → shows_D05 t k ≡ true → shows_D05 u k ≡ true }
{}
