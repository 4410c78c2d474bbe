//! Short logs of what a server delivers, whose places are computed from the definitions alone: where
//! B08, B09, P01, P02, R01 and R02 are put to the test, and the nearest logs in which they aren't.
ghost use Rattle.std.specs.Prelude.{◌≡◌, ◌∷◌, [], true, false, Some, None, codes};
ghost use Rattle.mq_packet.specs.declared.rule.PacketRule.TheVariants as packets;
ghost use Rattle.mq_rules.specs.declared.rule.Rule.TheVariants.{B01, B02, B08, B09, P01, P02, R01, R02};
ghost use Rattle.mq_rules.specs.declared.note.Note.TheVariants.{Open};
ghost use Rattle.mq_rules.specs.declared.packet_note.PacketFields.TheVariants.{Suback, Unsuback};
ghost use Rattle.mq_rules.specs.Worked.{client_asked, server, server_asked, applying, Close, sends, gets, gets_bad, gets_lost, lasting, again, asking, accepting, resuming, refusing, lacking, at_most_once, once, exactly, retained_at_most_once, aliased, subscribed};
ghost use Rattle.mq_rules_tests.specs.Deliveries.{asks, asks_with_identifier, asks_named, removes, delivers, delivers_for, delivers_once_for, aliased_for, resuming_without_identifiers};

/// Deliveries in a session with shared subscriptions (B08 and B09; beside them B01 and B02).
pub fn places_of_shared_subscriptions()
    ensures deliveries { applying server_asked B08 (Open ∷ gets lasting ∷ sends accepting ∷ gets (asks 1 "$share/g/a" 0) ∷ sends (Suback 1 (0 ∷ [])) ∷ sends at_most_once ∷ sends (delivers "b") ∷ []) ≡ 7 ∷ 6 ∷ [] }
    ensures unanswered { applying server_asked B08 (Open ∷ gets lasting ∷ sends accepting ∷ gets (asks 1 "$share/g/a" 0) ∷ sends at_most_once ∷ sends (Suback 1 (0 ∷ [])) ∷ []) ≡ 5 ∷ [] }
    ensures refused { applying server_asked B08 (Open ∷ gets lasting ∷ sends accepting ∷ gets (asks 1 "$share/g/a" 0) ∷ sends (Suback 1 (135 ∷ [])) ∷ sends (delivers "b") ∷ []) ≡ 6 ∷ [] }
    ensures before { applying server_asked B08 (Open ∷ gets lasting ∷ sends accepting ∷ gets (asks 1 "a" 0) ∷ sends (Suback 1 (0 ∷ [])) ∷ sends at_most_once ∷ gets (asks 2 "$share/g/a" 0) ∷ sends at_most_once ∷ []) ≡ 8 ∷ [] }
    ensures ordinary { applying server_asked B08 (Open ∷ gets lasting ∷ sends accepting ∷ gets (asks 1 "a" 0) ∷ sends (Suback 1 (0 ∷ [])) ∷ sends at_most_once ∷ []) ≡ [] }
    ensures ordinary_plainly { applying server_asked B01 (Open ∷ gets lasting ∷ sends accepting ∷ gets (asks 1 "a" 0) ∷ sends (Suback 1 (0 ∷ [])) ∷ sends at_most_once ∷ []) ≡ 6 ∷ [] }
    ensures shared_plainly { applying server_asked B01 (Open ∷ gets lasting ∷ sends accepting ∷ gets (asks 1 "$share/g/a" 0) ∷ sends (Suback 1 (0 ∷ [])) ∷ sends at_most_once ∷ []) ≡ [] }
    ensures word_alone { applying server_asked B08 (Open ∷ gets lasting ∷ sends accepting ∷ gets (asks 1 "$share" 0) ∷ sends (Suback 1 (0 ∷ [])) ∷ sends at_most_once ∷ []) ≡ [] }
    ensures no_name { applying server_asked B08 (Open ∷ gets lasting ∷ sends accepting ∷ gets (asks 1 "$share/" 0) ∷ sends (Suback 1 (0 ∷ [])) ∷ sends at_most_once ∷ []) ≡ 6 ∷ [] }
    ensures duplicate { applying server_asked B08 (Open ∷ gets lasting ∷ sends accepting ∷ gets (asks 1 "$share/g/a" 1) ∷ sends (Suback 1 (1 ∷ [])) ∷ sends (once false 1) ∷ sends (once true 1) ∷ []) ≡ 6 ∷ [] }
    ensures alias { applying server_asked B08 (Open ∷ gets (asking None None None (Some 5) None) ∷ sends accepting ∷ gets (asks 1 "$share/g/a" 0) ∷ sends (Suback 1 (0 ∷ [])) ∷ sends (aliased [] 1) ∷ sends (aliased (codes "a") 1) ∷ sends (aliased [] 1) ∷ []) ≡ 8 ∷ 7 ∷ [] }
    ensures unsubscribed { applying server_asked B08 (Open ∷ gets lasting ∷ sends accepting ∷ gets (asks 1 "$share/g/a" 0) ∷ sends (Suback 1 (0 ∷ [])) ∷ gets (removes 2 "$share/g/a") ∷ sends (Unsuback 2 (0 ∷ [])) ∷ sends at_most_once ∷ []) ≡ 8 ∷ [] }
    ensures resumed { applying server_asked B08 (Open ∷ gets lasting ∷ sends accepting ∷ gets (asks 1 "$share/g/a" 0) ∷ sends (Suback 1 (0 ∷ [])) ∷ Close ∷ Open ∷ gets again ∷ sends resuming ∷ sends at_most_once ∷ []) ≡ 10 ∷ [] }
    ensures new_session { applying server_asked B08 (Open ∷ gets lasting ∷ sends accepting ∷ gets (asks 1 "$share/g/a" 0) ∷ sends (Suback 1 (0 ∷ [])) ∷ Close ∷ Open ∷ gets lasting ∷ sends accepting ∷ sends at_most_once ∷ []) ≡ [] }
    ensures early { applying server_asked B08 (Open ∷ gets lasting ∷ gets (asks 1 "$share/g/a" 0) ∷ sends at_most_once ∷ sends accepting ∷ []) ≡ 4 ∷ [] }
    ensures turned_away { applying server_asked B08 (Open ∷ gets lasting ∷ gets (asks 1 "$share/g/a" 0) ∷ sends at_most_once ∷ sends refusing ∷ []) ≡ [] }
    ensures disturbed { applying server_asked B08 (Open ∷ gets lasting ∷ sends accepting ∷ gets (asks 1 "$share/g/a" 0) ∷ sends (Suback 1 (0 ∷ [])) ∷ Close ∷ Open ∷ gets again ∷ gets (asks 2 "$share/g/a" 0) ∷ Close ∷ Open ∷ gets again ∷ sends resuming ∷ sends at_most_once ∷ []) ≡ [] }
    ensures bad_subscribe { applying server_asked B08 (Open ∷ gets lasting ∷ sends accepting ∷ gets (asks 1 "$share/g/a" 0) ∷ sends (Suback 1 (0 ∷ [])) ∷ sends at_most_once ∷ gets_bad 130 packets.W15 ∷ sends at_most_once ∷ []) ≡ 6 ∷ [] }
    ensures bad_unsubscribe { applying server_asked B08 (Open ∷ gets lasting ∷ sends accepting ∷ gets (asks 1 "$share/g/a" 0) ∷ sends (Suback 1 (0 ∷ [])) ∷ gets_bad 162 packets.W15 ∷ sends at_most_once ∷ []) ≡ [] }
    ensures bad_publish { applying server_asked B08 (Open ∷ gets lasting ∷ sends accepting ∷ gets (asks 1 "$share/g/a" 0) ∷ sends (Suback 1 (0 ∷ [])) ∷ gets_bad 48 packets.W14 ∷ sends at_most_once ∷ []) ≡ 7 ∷ [] }
    ensures lost { applying server_asked B08 (Open ∷ gets lasting ∷ sends accepting ∷ gets (asks 1 "$share/g/a" 0) ∷ sends (Suback 1 (0 ∷ [])) ∷ gets_lost ∷ sends at_most_once ∷ []) ≡ [] }
    ensures lost_on_void { applying server_asked B08 (Open ∷ gets lasting ∷ sends accepting ∷ gets (asks 1 "$share/g/a" 0) ∷ sends (Suback 1 (0 ∷ [])) ∷ Close ∷ Open ∷ gets again ∷ gets_lost ∷ Close ∷ Open ∷ gets again ∷ sends resuming ∷ sends at_most_once ∷ []) ≡ [] }
    ensures lost_in_session_before { applying server_asked B08 (Open ∷ gets lasting ∷ sends accepting ∷ gets_lost ∷ Close ∷ Open ∷ gets lasting ∷ sends accepting ∷ gets (asks 1 "$share/g/a" 0) ∷ sends (Suback 1 (0 ∷ [])) ∷ sends at_most_once ∷ []) ≡ 11 ∷ [] }
    ensures unasked { applying server B08 (Open ∷ gets lasting ∷ sends accepting ∷ gets (asks 1 "$share/g/a" 0) ∷ sends (Suback 1 (0 ∷ [])) ∷ sends at_most_once ∷ []) ≡ [] }
    ensures of_client { applying client_asked B08 (Open ∷ sends lasting ∷ gets accepting ∷ gets (asks 1 "$share/g/a" 0) ∷ sends (Suback 1 (0 ∷ [])) ∷ sends at_most_once ∷ []) ≡ [] }
    ensures above { applying server_asked B09 (Open ∷ gets lasting ∷ sends accepting ∷ gets (asks 1 "$share/g/a" 0) ∷ sends (Suback 1 (0 ∷ [])) ∷ sends (once false 1) ∷ []) ≡ 6 ∷ [] }
    ensures exactly { applying server_asked B09 (Open ∷ gets lasting ∷ sends accepting ∷ gets (asks 1 "$share/g/a" 2) ∷ sends (Suback 1 (2 ∷ [])) ∷ sends (exactly false 1) ∷ []) ≡ 6 ∷ [] }
    ensures at_most_once { applying server_asked B09 (Open ∷ gets lasting ∷ sends accepting ∷ gets (asks 1 "$share/g/a" 0) ∷ sends (Suback 1 (0 ∷ [])) ∷ sends at_most_once ∷ []) ≡ [] }
    ensures none_matches { applying server_asked B09 (Open ∷ gets lasting ∷ sends accepting ∷ gets (asks 1 "$share/g/b" 0) ∷ sends (Suback 1 (0 ∷ [])) ∷ sends (once false 1) ∷ []) ≡ 6 ∷ [] }
    ensures ordinary_qos { applying server_asked B09 (Open ∷ gets lasting ∷ sends accepting ∷ gets (asks 1 "a" 0) ∷ sends (Suback 1 (0 ∷ [])) ∷ sends (once false 1) ∷ []) ≡ [] }
    ensures ordinary_qos_plainly { applying server_asked B02 (Open ∷ gets lasting ∷ sends accepting ∷ gets (asks 1 "a" 0) ∷ sends (Suback 1 (0 ∷ [])) ∷ sends (once false 1) ∷ []) ≡ 6 ∷ [] }
    ensures duplicate_qos { applying server_asked B09 (Open ∷ gets lasting ∷ sends accepting ∷ gets (asks 1 "$share/g/a" 1) ∷ sends (Suback 1 (1 ∷ [])) ∷ sends (once true 1) ∷ []) ≡ [] }
    ensures resumed_qos { applying server_asked B09 (Open ∷ gets lasting ∷ sends accepting ∷ gets (asks 1 "$share/g/a" 1) ∷ sends (Suback 1 (1 ∷ [])) ∷ Close ∷ Open ∷ gets again ∷ sends resuming ∷ sends (once false 1) ∷ []) ≡ 10 ∷ [] }
    ensures bad_subscribe_qos { applying server_asked B09 (Open ∷ gets lasting ∷ sends accepting ∷ gets (asks 1 "$share/g/a" 1) ∷ sends (Suback 1 (1 ∷ [])) ∷ gets_bad 130 packets.W15 ∷ sends (once false 1) ∷ []) ≡ [] }
    ensures unasked_qos { applying server B09 (Open ∷ gets lasting ∷ sends accepting ∷ gets (asks 1 "$share/g/a" 1) ∷ sends (Suback 1 (1 ∷ [])) ∷ sends (once false 1) ∷ []) ≡ [] }
{}

/// Deliveries with Subscription Identifiers, for which some subscription matches (P01).
pub fn places_of_identifiers()
    ensures own_and_foreign { applying server_asked P01 (Open ∷ gets lasting ∷ sends accepting ∷ gets (asks_named 7 1 "a" 0) ∷ sends (Suback 1 (0 ∷ [])) ∷ sends (delivers_for "a" (7 ∷ [])) ∷ sends (delivers_for "a" (8 ∷ [])) ∷ []) ≡ 7 ∷ 6 ∷ [] }
    ensures with_and_without { applying server_asked P01 (Open ∷ gets lasting ∷ sends accepting ∷ gets (asks_named 7 1 "a" 0) ∷ sends (Suback 1 (0 ∷ [])) ∷ sends at_most_once ∷ sends (delivers_for "a" (7 ∷ [])) ∷ []) ≡ 7 ∷ [] }
    ensures several { applying server_asked P01 (Open ∷ gets lasting ∷ sends accepting ∷ gets (asks_named 7 1 "a" 0) ∷ sends (Suback 1 (0 ∷ [])) ∷ sends (delivers_for "a" (7 ∷ 8 ∷ [])) ∷ []) ≡ 6 ∷ [] }
    ensures not_given { applying server_asked P01 (Open ∷ gets lasting ∷ sends accepting ∷ gets (asks 1 "a" 0) ∷ sends (Suback 1 (0 ∷ [])) ∷ sends (delivers_for "a" (7 ∷ [])) ∷ []) ≡ 6 ∷ [] }
    ensures none_matches { applying server_asked P01 (Open ∷ gets lasting ∷ sends accepting ∷ gets (asks_named 7 1 "b" 0) ∷ sends (Suback 1 (0 ∷ [])) ∷ sends (delivers_for "a" (7 ∷ [])) ∷ []) ≡ [] }
    ensures never_subscribed { applying server_asked P01 (Open ∷ gets lasting ∷ sends accepting ∷ sends (delivers_for "a" (7 ∷ [])) ∷ []) ≡ [] }
    ensures unanswered { applying server_asked P01 (Open ∷ gets lasting ∷ sends accepting ∷ gets (asks_named 7 1 "a" 0) ∷ sends (delivers_for "a" (7 ∷ [])) ∷ []) ≡ 5 ∷ [] }
    ensures refused { applying server_asked P01 (Open ∷ gets lasting ∷ sends accepting ∷ gets (asks_named 7 1 "a" 0) ∷ sends (delivers_for "a" (7 ∷ [])) ∷ sends (Suback 1 (135 ∷ [])) ∷ sends (delivers_for "a" (7 ∷ [])) ∷ []) ≡ 5 ∷ [] }
    ensures unsubscribed { applying server_asked P01 (Open ∷ gets lasting ∷ sends accepting ∷ gets (asks_named 7 1 "a" 0) ∷ sends (Suback 1 (0 ∷ [])) ∷ gets (removes 2 "a") ∷ sends (Unsuback 2 (0 ∷ [])) ∷ sends (delivers_for "a" (7 ∷ [])) ∷ []) ≡ 8 ∷ [] }
    ensures shared { applying server_asked P01 (Open ∷ gets lasting ∷ sends accepting ∷ gets (asks_named 7 1 "$share/g/a" 0) ∷ sends (Suback 1 (0 ∷ [])) ∷ sends (delivers_for "a" (7 ∷ [])) ∷ sends (delivers_for "b" (7 ∷ [])) ∷ []) ≡ 6 ∷ [] }
    ensures lacking { applying server_asked P01 (Open ∷ gets lasting ∷ sends (lacking None None (Some 0) None) ∷ gets (asks_named 7 1 "a" 0) ∷ sends (Suback 1 (0 ∷ [])) ∷ sends (delivers_for "a" (7 ∷ [])) ∷ []) ≡ 6 ∷ [] }
    ensures duplicate { applying server_asked P01 (Open ∷ gets lasting ∷ sends accepting ∷ gets (asks_named 7 1 "a" 1) ∷ sends (Suback 1 (1 ∷ [])) ∷ sends (delivers_once_for false "a" (7 ∷ [])) ∷ sends (delivers_once_for true "a" (7 ∷ [])) ∷ []) ≡ 6 ∷ [] }
    ensures alias { applying server_asked P01 (Open ∷ gets (asking None None None (Some 5) None) ∷ sends accepting ∷ gets (asks_named 7 1 "a" 0) ∷ sends (Suback 1 (0 ∷ [])) ∷ sends (aliased_for [] 1 (7 ∷ [])) ∷ sends (aliased_for (codes "a") 1 (7 ∷ [])) ∷ sends (aliased_for [] 1 (7 ∷ [])) ∷ []) ≡ 8 ∷ 7 ∷ [] }
    ensures resumed { applying server_asked P01 (Open ∷ gets lasting ∷ sends accepting ∷ gets (asks_named 7 1 "a" 0) ∷ sends (Suback 1 (0 ∷ [])) ∷ Close ∷ Open ∷ gets again ∷ sends resuming ∷ sends (delivers_for "a" (7 ∷ [])) ∷ []) ≡ 10 ∷ [] }
    ensures new_session { applying server_asked P01 (Open ∷ gets lasting ∷ sends accepting ∷ gets (asks_named 7 1 "a" 0) ∷ sends (Suback 1 (0 ∷ [])) ∷ Close ∷ Open ∷ gets lasting ∷ sends accepting ∷ sends (delivers_for "a" (7 ∷ [])) ∷ gets (asks 2 "a" 0) ∷ sends (Suback 2 (0 ∷ [])) ∷ sends (delivers_for "a" (7 ∷ [])) ∷ []) ≡ 13 ∷ [] }
    ensures turned_away { applying server_asked P01 (Open ∷ gets lasting ∷ gets (asks_named 7 1 "a" 0) ∷ sends (delivers_for "a" (7 ∷ [])) ∷ sends refusing ∷ []) ≡ [] }
    ensures bad_subscribe { applying server_asked P01 (Open ∷ gets lasting ∷ sends accepting ∷ gets (asks_named 7 1 "a" 0) ∷ sends (Suback 1 (0 ∷ [])) ∷ sends (delivers_for "a" (7 ∷ [])) ∷ gets_bad 130 packets.W15 ∷ sends (delivers_for "a" (7 ∷ [])) ∷ []) ≡ 6 ∷ [] }
    ensures lost { applying server_asked P01 (Open ∷ gets lasting ∷ sends accepting ∷ gets (asks_named 7 1 "a" 0) ∷ sends (Suback 1 (0 ∷ [])) ∷ gets_lost ∷ sends (delivers_for "a" (7 ∷ [])) ∷ []) ≡ [] }
    ensures unasked { applying server P01 (Open ∷ gets lasting ∷ sends accepting ∷ gets (asks_named 7 1 "a" 0) ∷ sends (Suback 1 (0 ∷ [])) ∷ sends (delivers_for "a" (7 ∷ [])) ∷ []) ≡ [] }
    ensures of_client { applying client_asked P01 (Open ∷ sends lasting ∷ gets accepting ∷ gets (asks_named 7 1 "a" 0) ∷ sends (Suback 1 (0 ∷ [])) ∷ sends (delivers_for "a" (7 ∷ [])) ∷ []) ≡ [] }
{}

/// Deliveries that have to have a Subscription Identifier (P02).
pub fn places_of_subscription_identifiers()
    ensures with_and_without { applying server_asked P02 (Open ∷ gets lasting ∷ sends accepting ∷ gets (asks_with_identifier 1 "a" 0) ∷ sends (Suback 1 (0 ∷ [])) ∷ sends at_most_once ∷ sends subscribed ∷ []) ≡ 7 ∷ 6 ∷ [] }
    ensures not_given { applying server_asked P02 (Open ∷ gets lasting ∷ sends accepting ∷ gets (asks 1 "a" 0) ∷ sends (Suback 1 (0 ∷ [])) ∷ sends at_most_once ∷ sends subscribed ∷ []) ≡ [] }
    ensures unanswered { applying server_asked P02 (Open ∷ gets lasting ∷ sends accepting ∷ gets (asks_with_identifier 1 "a" 0) ∷ sends at_most_once ∷ []) ≡ 5 ∷ [] }
    ensures refused { applying server_asked P02 (Open ∷ gets lasting ∷ sends accepting ∷ gets (asks_with_identifier 1 "a" 0) ∷ sends (Suback 1 (135 ∷ [])) ∷ sends at_most_once ∷ []) ≡ [] }
    ensures none_matches { applying server_asked P02 (Open ∷ gets lasting ∷ sends accepting ∷ gets (asks_with_identifier 1 "b" 0) ∷ sends (Suback 1 (0 ∷ [])) ∷ sends subscribed ∷ []) ≡ [] }
    ensures overlapping { applying server_asked P02 (Open ∷ gets lasting ∷ sends accepting ∷ gets (asks_with_identifier 1 "a" 0) ∷ sends (Suback 1 (0 ∷ [])) ∷ gets (asks 2 "#" 0) ∷ sends subscribed ∷ sends (Suback 2 (135 ∷ [])) ∷ sends subscribed ∷ []) ≡ 9 ∷ [] }
    ensures again { applying server_asked P02 (Open ∷ gets lasting ∷ sends accepting ∷ gets (asks 1 "a" 0) ∷ sends (Suback 1 (0 ∷ [])) ∷ gets (asks_with_identifier 2 "a" 0) ∷ sends (Suback 2 (0 ∷ [])) ∷ sends subscribed ∷ []) ≡ [] }
    ensures shared { applying server_asked P02 (Open ∷ gets lasting ∷ sends accepting ∷ gets (asks_with_identifier 1 "$share/g/a" 0) ∷ sends (Suback 1 (0 ∷ [])) ∷ sends subscribed ∷ []) ≡ 6 ∷ [] }
    ensures shared_beside { applying server_asked P02 (Open ∷ gets lasting ∷ sends accepting ∷ gets (asks_with_identifier 1 "$share/g/a" 0) ∷ sends (Suback 1 (0 ∷ [])) ∷ gets (asks 2 "a" 0) ∷ sends (Suback 2 (0 ∷ [])) ∷ sends subscribed ∷ []) ≡ [] }
    ensures lacking { applying server_asked P02 (Open ∷ gets lasting ∷ sends (lacking None None (Some 0) None) ∷ gets (asks_with_identifier 1 "a" 0) ∷ sends (Suback 1 (0 ∷ [])) ∷ sends subscribed ∷ []) ≡ [] }
    ensures lacking_next { applying server_asked P02 (Open ∷ gets lasting ∷ sends accepting ∷ gets (asks_with_identifier 1 "a" 0) ∷ sends (Suback 1 (0 ∷ [])) ∷ sends subscribed ∷ Close ∷ Open ∷ gets again ∷ sends resuming_without_identifiers ∷ sends subscribed ∷ []) ≡ 6 ∷ [] }
    ensures duplicate { applying server_asked P02 (Open ∷ gets lasting ∷ sends accepting ∷ gets (asks_with_identifier 1 "a" 1) ∷ sends (Suback 1 (1 ∷ [])) ∷ sends (once true 1) ∷ []) ≡ [] }
    ensures alias { applying server_asked P02 (Open ∷ gets (asking None None None (Some 5) None) ∷ sends accepting ∷ gets (asks_with_identifier 1 "a" 0) ∷ sends (Suback 1 (0 ∷ [])) ∷ sends (aliased [] 1) ∷ sends (aliased (codes "a") 1) ∷ sends (aliased [] 1) ∷ []) ≡ 8 ∷ 7 ∷ [] }
    ensures new_session { applying server_asked P02 (Open ∷ gets lasting ∷ sends accepting ∷ gets (asks 1 "a" 0) ∷ sends (Suback 1 (0 ∷ [])) ∷ Close ∷ Open ∷ gets lasting ∷ sends accepting ∷ gets (asks_with_identifier 2 "a" 0) ∷ sends (Suback 2 (0 ∷ [])) ∷ sends subscribed ∷ []) ≡ 12 ∷ [] }
    ensures turned_away { applying server_asked P02 (Open ∷ gets lasting ∷ gets (asks_with_identifier 1 "a" 0) ∷ sends subscribed ∷ sends refusing ∷ []) ≡ [] }
    ensures bad_subscribe { applying server_asked P02 (Open ∷ gets lasting ∷ sends accepting ∷ gets (asks_with_identifier 1 "a" 0) ∷ sends (Suback 1 (0 ∷ [])) ∷ gets_bad 130 packets.W15 ∷ sends subscribed ∷ []) ≡ [] }
    ensures unasked { applying server P02 (Open ∷ gets lasting ∷ sends accepting ∷ gets (asks_with_identifier 1 "a" 0) ∷ sends (Suback 1 (0 ∷ [])) ∷ sends subscribed ∷ []) ≡ [] }
{}

/// Deliveries whose RETAIN has to be 0 (R01 and R02).
pub fn places_of_retain_flags()
    ensures retained_or_not { applying server_asked R01 (Open ∷ gets lasting ∷ sends accepting ∷ gets (asks 1 "a" 32) ∷ sends (Suback 1 (0 ∷ [])) ∷ sends at_most_once ∷ sends retained_at_most_once ∷ []) ≡ 7 ∷ 6 ∷ [] }
    ensures as_published { applying server_asked R01 (Open ∷ gets lasting ∷ sends accepting ∷ gets (asks 1 "a" 40) ∷ sends (Suback 1 (0 ∷ [])) ∷ sends at_most_once ∷ []) ≡ [] }
    ensures handling_0 { applying server_asked R01 (Open ∷ gets lasting ∷ sends accepting ∷ gets (asks 1 "a" 0) ∷ sends (Suback 1 (0 ∷ [])) ∷ sends at_most_once ∷ []) ≡ [] }
    ensures handling_1 { applying server_asked R01 (Open ∷ gets lasting ∷ sends accepting ∷ gets (asks 1 "a" 16) ∷ sends (Suback 1 (0 ∷ [])) ∷ sends at_most_once ∷ []) ≡ [] }
    ensures refused { applying server_asked R01 (Open ∷ gets lasting ∷ sends accepting ∷ gets (asks 1 "a" 32) ∷ sends at_most_once ∷ sends (Suback 1 (135 ∷ [])) ∷ sends at_most_once ∷ []) ≡ 5 ∷ [] }
    ensures overlapping { applying server_asked R01 (Open ∷ gets lasting ∷ sends accepting ∷ gets (asks 1 "a" 32) ∷ sends (Suback 1 (0 ∷ [])) ∷ gets (asks 2 "#" 0) ∷ sends at_most_once ∷ sends (Suback 2 (135 ∷ [])) ∷ sends at_most_once ∷ []) ≡ 9 ∷ [] }
    ensures replaced { applying server_asked R01 (Open ∷ gets lasting ∷ sends accepting ∷ gets (asks 1 "a" 0) ∷ sends (Suback 1 (0 ∷ [])) ∷ gets (asks 2 "a" 32) ∷ sends (Suback 2 (0 ∷ [])) ∷ sends at_most_once ∷ []) ≡ [] }
    ensures shared { applying server_asked R01 (Open ∷ gets lasting ∷ sends accepting ∷ gets (asks 1 "$share/g/a" 32) ∷ sends (Suback 1 (0 ∷ [])) ∷ sends at_most_once ∷ []) ≡ 6 ∷ [] }
    ensures shared_handling_0 { applying server_asked R01 (Open ∷ gets lasting ∷ sends accepting ∷ gets (asks 1 "a" 32) ∷ sends (Suback 1 (0 ∷ [])) ∷ gets (asks 2 "$share/g/a" 0) ∷ sends (Suback 2 (0 ∷ [])) ∷ sends at_most_once ∷ []) ≡ [] }
    ensures duplicate { applying server_asked R01 (Open ∷ gets lasting ∷ sends accepting ∷ gets (asks 1 "a" 33) ∷ sends (Suback 1 (1 ∷ [])) ∷ sends (once true 1) ∷ []) ≡ [] }
    ensures resumed { applying server_asked R01 (Open ∷ gets lasting ∷ sends accepting ∷ gets (asks 1 "a" 32) ∷ sends (Suback 1 (0 ∷ [])) ∷ Close ∷ Open ∷ gets again ∷ sends resuming ∷ sends at_most_once ∷ []) ≡ 10 ∷ [] }
    ensures lost { applying server_asked R01 (Open ∷ gets lasting ∷ sends accepting ∷ gets (asks 1 "a" 32) ∷ sends (Suback 1 (0 ∷ [])) ∷ gets_lost ∷ sends at_most_once ∷ []) ≡ [] }
    ensures unasked { applying server R01 (Open ∷ gets lasting ∷ sends accepting ∷ gets (asks 1 "a" 32) ∷ sends (Suback 1 (0 ∷ [])) ∷ sends at_most_once ∷ []) ≡ [] }
    ensures given_to_a_share { applying server_asked R02 (Open ∷ gets lasting ∷ sends accepting ∷ gets (asks 1 "$share/g/a" 0) ∷ sends (Suback 1 (0 ∷ [])) ∷ sends at_most_once ∷ sends retained_at_most_once ∷ []) ≡ 7 ∷ 6 ∷ [] }
    ensures given_to_two_shares { applying server_asked R02 (Open ∷ gets lasting ∷ sends accepting ∷ gets (asks 1 "$share/g/a" 16) ∷ sends (Suback 1 (0 ∷ [])) ∷ gets (asks 2 "$share/h/a" 32) ∷ sends (Suback 2 (0 ∷ [])) ∷ sends at_most_once ∷ []) ≡ 8 ∷ [] }
    ensures share_handling_2 { applying server_asked R02 (Open ∷ gets lasting ∷ sends accepting ∷ gets (asks 1 "$share/g/a" 32) ∷ sends (Suback 1 (0 ∷ [])) ∷ sends at_most_once ∷ []) ≡ [] }
    ensures share_as_published { applying server_asked R02 (Open ∷ gets lasting ∷ sends accepting ∷ gets (asks 1 "$share/g/a" 8) ∷ sends (Suback 1 (0 ∷ [])) ∷ sends at_most_once ∷ []) ≡ [] }
    ensures share_refused { applying server_asked R02 (Open ∷ gets lasting ∷ sends accepting ∷ gets (asks 1 "$share/g/a" 0) ∷ sends (Suback 1 (135 ∷ [])) ∷ sends at_most_once ∷ []) ≡ [] }
    ensures beside_handling_0 { applying server_asked R02 (Open ∷ gets lasting ∷ sends accepting ∷ gets (asks 1 "$share/g/a" 0) ∷ sends (Suback 1 (0 ∷ [])) ∷ gets (asks 2 "a" 0) ∷ sends (Suback 2 (0 ∷ [])) ∷ sends at_most_once ∷ []) ≡ [] }
    ensures beside_handling_2 { applying server_asked R02 (Open ∷ gets lasting ∷ sends accepting ∷ gets (asks 1 "$share/g/a" 0) ∷ sends (Suback 1 (0 ∷ [])) ∷ gets (asks 2 "a" 32) ∷ sends (Suback 2 (0 ∷ [])) ∷ sends at_most_once ∷ []) ≡ 8 ∷ [] }
    ensures beside_other_topic { applying server_asked R02 (Open ∷ gets lasting ∷ sends accepting ∷ gets (asks 1 "$share/g/a" 0) ∷ sends (Suback 1 (0 ∷ [])) ∷ gets (asks 2 "b" 0) ∷ sends (Suback 2 (0 ∷ [])) ∷ sends at_most_once ∷ []) ≡ 8 ∷ [] }
    ensures no_share { applying server_asked R02 (Open ∷ gets lasting ∷ sends accepting ∷ gets (asks 1 "a" 0) ∷ sends (Suback 1 (0 ∷ [])) ∷ sends at_most_once ∷ []) ≡ [] }
    ensures share_by_its_own_text { applying server_asked R02 (Open ∷ gets lasting ∷ sends accepting ∷ gets (asks 1 "$share/g/a" 0) ∷ sends (Suback 1 (0 ∷ [])) ∷ sends (delivers "$share/g/a") ∷ []) ≡ 6 ∷ [] }
    ensures share_bad_subscribe { applying server_asked R02 (Open ∷ gets lasting ∷ sends accepting ∷ gets (asks 1 "$share/g/a" 0) ∷ sends (Suback 1 (0 ∷ [])) ∷ gets_bad 130 packets.W15 ∷ sends at_most_once ∷ []) ≡ [] }
    ensures share_unasked { applying server R02 (Open ∷ gets lasting ∷ sends accepting ∷ gets (asks 1 "$share/g/a" 0) ∷ sends (Suback 1 (0 ∷ [])) ∷ sends at_most_once ∷ []) ≡ [] }
{}
