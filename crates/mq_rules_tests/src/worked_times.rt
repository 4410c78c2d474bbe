//! Short logs with moments, judged by the definitions alone: for K01 and K02 logs that break them,
//! with all positions where they do, and the nearest ones that keep them; and where these are put to
//! the test. Moments are microseconds.
ghost use Rattle.std.specs.Prelude.{◌≡◌, ◌∷◌, [], true, false, Some, None};
ghost use Rattle.mq_packet.specs.declared.rule.PacketRule.TheVariants as packets;
ghost use Rattle.mq_rules.specs.declared.rule.Rule.TheVariants.{K01, K02};
ghost use Rattle.mq_rules.specs.declared.note.Note.TheVariants as notes;
ghost use Rattle.mq_rules.specs.declared.note.Note.TheVariants.{Open, Release};
ghost use Rattle.mq_rules.specs.declared.note.ItemNote.TheVariants as items;
ghost use Rattle.mq_rules.specs.declared.packet_note.PacketFields.TheVariants.{Pingreq, Pingresp};
ghost use Rattle.mq_rules.specs.Worked.{accepting, applying_timed, at_most_once, client_asked, client_timed, Close, CutOther, failing_timed, gets, gets_lost, keeping_alive, kept_alive, leaving, leaving_by, refusing, sends, sends_lost, sends_sized, server_asked, server_timed};

/// A client that is silent (K01).
pub fn silent_clients()
    ensures breaks { failing_timed client_timed K01 ((0, Open) ∷ (0, sends (kept_alive 10)) ∷ (0, gets accepting) ∷ (13600000, sends Pingreq) ∷ []) ≡ 4 ∷ [] }
    ensures breaks_by_the_server { failing_timed client_timed K01 ((0, Open) ∷ (0, sends (kept_alive 10)) ∷ (0, gets (keeping_alive 4)) ∷ (6100000, sends Pingreq) ∷ []) ≡ 4 ∷ [] }
    ensures breaks_at_a_close { failing_timed client_timed K01 ((0, Open) ∷ (0, sends (kept_alive 10)) ∷ (0, gets accepting) ∷ (20000000, Close) ∷ []) ≡ 4 ∷ [] }
    ensures breaks_once_in_a_silence { failing_timed client_timed K01 ((0, Open) ∷ (0, sends (kept_alive 10)) ∷ (0, gets accepting) ∷ (14000000, gets at_most_once) ∷ (15000000, gets at_most_once) ∷ (15000000, sends Pingreq) ∷ (30000000, sends Pingreq) ∷ []) ≡ 7 ∷ 4 ∷ [] }
    ensures breaks_beyond { failing_timed client_timed K01 ((0, Open) ∷ (0, sends (kept_alive 10)) ∷ (0, gets accepting) ∷ (13500000, gets at_most_once) ∷ (13600001, gets at_most_once) ∷ []) ≡ 5 ∷ [] }
    ensures keeps { failing_timed client_timed K01 ((0, Open) ∷ (0, sends (kept_alive 10)) ∷ (0, gets accepting) ∷ (9900000, sends Pingreq) ∷ (13600000, sends Pingreq) ∷ []) ≡ [] }
    ensures keeps_late { failing_timed client_timed K01 ((0, Open) ∷ (0, sends (kept_alive 10)) ∷ (0, gets accepting) ∷ (13500000, sends Pingreq) ∷ []) ≡ [] }
    ensures keeps_by_half { failing_timed client_timed K01 ((0, Open) ∷ (0, sends (kept_alive 10)) ∷ (0, gets accepting) ∷ (5000000, sends Pingreq) ∷ []) ≡ [] }
    ensures keeps_leaving { failing_timed client_timed K01 ((0, Open) ∷ (0, sends (kept_alive 10)) ∷ (0, gets accepting) ∷ (0, sends (leaving None)) ∷ (60000000, Close) ∷ []) ≡ [] }
    ensures keeps_left { failing_timed client_timed K01 ((0, Open) ∷ (0, sends (kept_alive 10)) ∷ (0, gets accepting) ∷ (0, gets (leaving None)) ∷ (60000000, Close) ∷ []) ≡ [] }
    ensures keeps_with_a_large_packet { failing_timed client_timed K01 ((0, Open) ∷ (0, sends (kept_alive 10)) ∷ (0, gets accepting) ∷ (60000000, sends_sized 65537 at_most_once) ∷ []) ≡ [] }
    ensures breaks_with_a_smaller_packet { failing_timed client_timed K01 ((0, Open) ∷ (0, sends (kept_alive 10)) ∷ (0, gets accepting) ∷ (60000000, sends_sized 65536 at_most_once) ∷ []) ≡ 4 ∷ [] }
    ensures keeps_with_a_cut_packet { failing_timed client_timed K01 ((0, Open) ∷ (0, sends (kept_alive 10)) ∷ (0, gets accepting) ∷ (60000000, CutOther) ∷ []) ≡ [] }
    ensures keeps_from_the_connack { failing_timed client_timed K01 ((0, Open) ∷ (0, sends (kept_alive 10)) ∷ (60000000, gets accepting) ∷ (69000000, sends Pingreq) ∷ []) ≡ [] }
    ensures keeps_without_a_keep_alive { failing_timed client_timed K01 ((0, Open) ∷ (0, sends (kept_alive 0)) ∷ (0, gets accepting) ∷ (60000000, sends Pingreq) ∷ []) ≡ [] }
    ensures keeps_where_the_server_wants_none { failing_timed client_timed K01 ((0, Open) ∷ (0, sends (kept_alive 10)) ∷ (0, gets (keeping_alive 0)) ∷ (60000000, sends Pingreq) ∷ []) ≡ [] }
    ensures keeps_where_it_is_refused { failing_timed client_timed K01 ((0, Open) ∷ (0, sends (kept_alive 10)) ∷ (0, gets refusing) ∷ (60000000, sends Pingreq) ∷ []) ≡ [] }
    ensures keeps_where_nothing_is_read { failing_timed client_timed K01 ((0, Open) ∷ (0, sends (kept_alive 10)) ∷ (0, gets accepting) ∷ (0, sends_lost) ∷ (60000000, Close) ∷ []) ≡ [] }
    ensures keeps_after_a_close { failing_timed client_timed K01 ((0, Open) ∷ (0, sends (kept_alive 10)) ∷ (0, gets accepting) ∷ (1000000, Close) ∷ (60000000, Open) ∷ (60000000, sends (kept_alive 10)) ∷ []) ≡ [] }
    ensures keeps_between_connections { failing_timed client_timed K01 ((0, Open) ∷ (0, sends (kept_alive 10)) ∷ (0, gets accepting) ∷ (1000000, Close) ∷ (60000000, Release 1) ∷ []) ≡ [] }
    ensures keeps_unasked { failing_timed client_asked K01 ((0, Open) ∷ (0, sends (kept_alive 10)) ∷ (0, gets accepting) ∷ (13600000, sends Pingreq) ∷ []) ≡ [] }
{}

/// A server whose client is silent (K02).
pub fn servers_of_silent_clients()
    ensures breaks { failing_timed server_timed K02 ((0, Open) ∷ (0, gets (kept_alive 10)) ∷ (0, sends accepting) ∷ (20100000, Close) ∷ []) ≡ 4 ∷ [] }
    ensures breaks_by_the_server { failing_timed server_timed K02 ((0, Open) ∷ (0, gets (kept_alive 10)) ∷ (0, sends (keeping_alive 2)) ∷ (8100000, Close) ∷ []) ≡ 4 ∷ [] }
    ensures breaks_once { failing_timed server_timed K02 ((0, Open) ∷ (0, gets (kept_alive 10)) ∷ (0, sends accepting) ∷ (30000000, sends Pingresp) ∷ (40000000, Close) ∷ []) ≡ 4 ∷ [] }
    ensures breaks_where_a_packet_is_cut { failing_timed server_timed K02 ((0, Open) ∷ (0, gets (kept_alive 10)) ∷ (0, sends accepting) ∷ (60000000, CutOther) ∷ []) ≡ 4 ∷ [] }
    ensures keeps { failing_timed server_timed K02 ((0, Open) ∷ (0, gets (kept_alive 10)) ∷ (0, sends accepting) ∷ (15500000, Close) ∷ []) ≡ [] }
    ensures keeps_late { failing_timed server_timed K02 ((0, Open) ∷ (0, gets (kept_alive 10)) ∷ (0, sends accepting) ∷ (20000000, Close) ∷ []) ≡ [] }
    ensures keeps_where_it_looks_now_and_then { failing_timed server_timed K02 ((0, Open) ∷ (0, gets (kept_alive 10)) ∷ (0, sends (keeping_alive 2)) ∷ (8000000, Close) ∷ []) ≡ [] }
    ensures keeps_by_one_and_a_half { failing_timed server_timed K02 ((0, Open) ∷ (0, gets (kept_alive 10)) ∷ (0, sends accepting) ∷ (15000000, Close) ∷ []) ≡ [] }
    ensures keeps_leaving { failing_timed server_timed K02 ((0, Open) ∷ (0, gets (kept_alive 10)) ∷ (0, sends accepting) ∷ (15500000, sends (leaving_by 141)) ∷ (60000000, Close) ∷ []) ≡ [] }
    ensures keeps_left { failing_timed server_timed K02 ((0, Open) ∷ (0, gets (kept_alive 10)) ∷ (0, sends accepting) ∷ (0, gets (leaving None)) ∷ (60000000, Close) ∷ []) ≡ [] }
    ensures keeps_from_the_connack { failing_timed server_timed K02 ((0, Open) ∷ (0, gets (kept_alive 10)) ∷ (60000000, sends accepting) ∷ (61000000, gets Pingreq) ∷ []) ≡ [] }
    ensures keeps_with_a_large_packet { failing_timed server_timed K02 ((0, Open) ∷ (0, gets (kept_alive 10)) ∷ (0, sends accepting) ∷ (60000000, notes.Recv (items.Bad 48 packets.W06 2 true)) ∷ []) ≡ [] }
    ensures keeps_where_nothing_is_read { failing_timed server_timed K02 ((0, Open) ∷ (0, gets (kept_alive 10)) ∷ (0, sends accepting) ∷ (0, gets_lost) ∷ (60000000, Close) ∷ []) ≡ [] }
    ensures keeps_unasked { failing_timed server_asked K02 ((0, Open) ∷ (0, gets (kept_alive 10)) ∷ (0, sends accepting) ∷ (20100000, Close) ∷ []) ≡ [] }
{}

/// Where a silence puts the two to the test.
pub fn places_of_silences()
    ensures client_broken_once_in_a_silence { applying_timed client_timed K01 ((0, Open) ∷ (0, sends (kept_alive 10)) ∷ (0, gets accepting) ∷ (14000000, gets at_most_once) ∷ (15000000, gets at_most_once) ∷ (15000000, sends Pingreq) ∷ (30000000, sends Pingreq) ∷ []) ≡ 7 ∷ 6 ∷ 5 ∷ 4 ∷ [] }
    ensures client_broken_beyond { applying_timed client_timed K01 ((0, Open) ∷ (0, sends (kept_alive 10)) ∷ (0, gets accepting) ∷ (13500000, gets at_most_once) ∷ (13600001, gets at_most_once) ∷ []) ≡ 5 ∷ 4 ∷ [] }
    ensures client_keeps { applying_timed client_timed K01 ((0, Open) ∷ (0, sends (kept_alive 10)) ∷ (0, gets accepting) ∷ (9900000, sends Pingreq) ∷ (13600000, sends Pingreq) ∷ []) ≡ 4 ∷ [] }
    ensures client_keeps_by_half { applying_timed client_timed K01 ((0, Open) ∷ (0, sends (kept_alive 10)) ∷ (0, gets accepting) ∷ (5000000, sends Pingreq) ∷ []) ≡ [] }
    ensures client_keeps_leaving { applying_timed client_timed K01 ((0, Open) ∷ (0, sends (kept_alive 10)) ∷ (0, gets accepting) ∷ (0, sends (leaving None)) ∷ (60000000, Close) ∷ []) ≡ [] }
    ensures client_keeps_with_a_large_packet { applying_timed client_timed K01 ((0, Open) ∷ (0, sends (kept_alive 10)) ∷ (0, gets accepting) ∷ (60000000, sends_sized 65537 at_most_once) ∷ []) ≡ 4 ∷ [] }
    ensures client_keeps_with_a_cut_packet { applying_timed client_timed K01 ((0, Open) ∷ (0, sends (kept_alive 10)) ∷ (0, gets accepting) ∷ (60000000, CutOther) ∷ []) ≡ 4 ∷ [] }
    ensures client_keeps_where_it_is_refused { applying_timed client_timed K01 ((0, Open) ∷ (0, sends (kept_alive 10)) ∷ (0, gets refusing) ∷ (60000000, sends Pingreq) ∷ []) ≡ [] }
    ensures server_broken_once { applying_timed server_timed K02 ((0, Open) ∷ (0, gets (kept_alive 10)) ∷ (0, sends accepting) ∷ (30000000, sends Pingresp) ∷ (40000000, Close) ∷ []) ≡ 5 ∷ 4 ∷ [] }
    ensures server_keeps { applying_timed server_timed K02 ((0, Open) ∷ (0, gets (kept_alive 10)) ∷ (0, sends accepting) ∷ (15500000, Close) ∷ []) ≡ 4 ∷ [] }
    ensures server_keeps_by_one_and_a_half { applying_timed server_timed K02 ((0, Open) ∷ (0, gets (kept_alive 10)) ∷ (0, sends accepting) ∷ (15000000, Close) ∷ []) ≡ [] }
    ensures server_keeps_left { applying_timed server_timed K02 ((0, Open) ∷ (0, gets (kept_alive 10)) ∷ (0, sends accepting) ∷ (0, gets (leaving None)) ∷ (60000000, Close) ∷ []) ≡ [] }
    ensures server_keeps_with_a_large_packet { applying_timed server_timed K02 ((0, Open) ∷ (0, gets (kept_alive 10)) ∷ (0, sends accepting) ∷ (60000000, notes.Recv (items.Bad 48 packets.W06 2 true)) ∷ []) ≡ 4 ∷ [] }
{}
