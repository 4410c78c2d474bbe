//! Short logs whose places are computed from the definitions alone: for each statement but those on
//! a packet's bytes, all positions of a log where it is put to the test, and where its antecedent
//! is narrow, the nearest log in which it isn't. Last, where nothing is judged.
ghost use Rattle.std.specs.Prelude.{◌≡◌, ◌∷◌, [], true, false, Some, None};
ghost use Rattle.mq_packet.specs.declared.rule.PacketRule.TheVariants as packets;
ghost use Rattle.mq_packet.specs.declared.packet.Qos.TheVariants as quality;
ghost use Rattle.mq_rules.specs.declared.rule.Rule.TheVariants.{C01, C02, C03, C04, C05, C06, C07, C08, C09, C10, C11, C12, C13, C14, C15, C16, C17, C18, C19, C20, C21, C22, C23, S01, S02, S03, S04, S05, S06, S07, E1A, E1R, E1O, E2A, E2R, E2O, E3A, E3R, E3O, E4A, E4R, E5A, E5R, E6A, E6R, E7R, L1, L2, L3, B01, B02, B03, B04, B05, B06, B07, F01, F02, F03, F04, F05, F06, V03, V04, V06, C24, D01, D02, D03, D05, A01, A02, A03};
ghost use Rattle.mq_rules.specs.declared.note.Note.TheVariants.{Open, Rest, Release};
ghost use Rattle.mq_rules.specs.declared.packet_note.PacketFields.TheVariants.{Puback, Pubrec, Pubrel, Pubcomp, Suback, Unsuback, Pingreq, Pingresp};
ghost use Rattle.mq_rules.specs.Worked.{client, client_unrecorded, server, applying, Close, Cut, sends, gets, sends_sized, sends_bad, gets_bad, sends_lost, gets_lost, lasting, again, unnamed, asking, accepting, resuming, refusing, limiting, retaining, assigning, informing, leaving, at_most_once, once, exactly, retained_once, expiring, aliased, asks_a, asks_b, asks_both, asks_twice, removes_a, removes_both, removes_twice, asks_shared, client_asked, server_asked, with_will, with_method, announcing, naming_method, auth_alone, auth_by, one_method, other_method, lacking, leaving_by, retained_at_most_once, retained_again, asks_plainly, asks_widely, asks_identified, asks_to_share, subscribed, fleeting};

/// What begins a connection (C01 to C06).
pub fn places_of_beginnings()
    ensures typed { applying client C01 (Open ∷ sends lasting ∷ gets accepting ∷ sends_bad 48 packets.W04 ∷ sends_lost ∷ []) ≡ 4 ∷ 2 ∷ [] }
    ensures first { applying client C02 (Open ∷ sends lasting ∷ gets accepting ∷ sends Pingreq ∷ []) ≡ 2 ∷ [] }
    ensures connect { applying client C03 (Open ∷ sends lasting ∷ gets accepting ∷ sends Pingreq ∷ []) ≡ 2 ∷ [] }
    ensures connack { applying server C04 (Open ∷ gets lasting ∷ sends accepting ∷ sends Pingresp ∷ []) ≡ 3 ∷ [] }
    ensures before_connack { applying server C05 (Open ∷ gets lasting ∷ sends auth_alone ∷ sends accepting ∷ sends Pingresp ∷ []) ≡ 4 ∷ [] }
    ensures only_connack { applying server C06 (Open ∷ gets lasting ∷ sends accepting ∷ sends Pingresp ∷ []) ≡ 3 ∷ [] }
{}

/// What a CONNACK answers (C07 to C10, C21 and C22).
pub fn places_of_answers_to_connect()
    ensures clean { applying server C07 (Open ∷ gets lasting ∷ sends accepting ∷ Close ∷ Open ∷ gets again ∷ sends resuming ∷ []) ≡ 3 ∷ [] }
    ensures alive { applying server C08 (Open ∷ gets lasting ∷ sends accepting ∷ Close ∷ Open ∷ gets again ∷ sends resuming ∷ []) ≡ 7 ∷ [] }
    ensures not_alive { applying server C08 (Open ∷ gets again ∷ sends accepting ∷ []) ≡ 3 ∷ [] }
    ensures refusal { applying server C09 (Open ∷ gets again ∷ sends refusing ∷ []) ≡ 3 ∷ [] }
    ensures no_refusal { applying server C09 (Open ∷ gets again ∷ sends accepting ∷ []) ≡ [] }
    ensures assigned { applying server C10 (Open ∷ gets unnamed ∷ sends assigning ∷ []) ≡ 3 ∷ [] }
    ensures named { applying server C10 (Open ∷ gets lasting ∷ sends assigning ∷ []) ≡ [] }
    ensures unexplained { applying server C21 (Open ∷ gets (asking (Some 0) None None None None) ∷ sends accepting ∷ sends Pingresp ∷ []) ≡ 4 ∷ [] }
    ensures may_be_explained { applying server C21 (Open ∷ gets (asking (Some 1) None None None None) ∷ sends accepting ∷ sends Pingresp ∷ []) ≡ [] }
    ensures informed { applying server C22 (Open ∷ gets (asking None (Some 1) None None None) ∷ sends informing ∷ []) ≡ 3 ∷ [] }
    ensures not_informed { applying server C22 (Open ∷ gets lasting ∷ sends accepting ∷ []) ≡ [] }
{}

/// What an end does after its last packet, up to the CLOSE (C11 to C13, and C23).
pub fn places_of_endings()
    ensures disconnected { applying client C11 (Open ∷ sends lasting ∷ gets accepting ∷ sends (leaving None) ∷ Close ∷ []) ≡ 5 ∷ [] }
    ensures not_disconnected { applying client C11 (Open ∷ sends lasting ∷ gets accepting ∷ sends Pingreq ∷ Close ∷ []) ≡ [] }
    ensures refused { applying server C12 (Open ∷ gets lasting ∷ sends refusing ∷ Close ∷ []) ≡ 4 ∷ [] }
    ensures not_refused { applying server C12 (Open ∷ gets lasting ∷ sends accepting ∷ Close ∷ []) ≡ [] }
    ensures unknown { applying client C13 (Open ∷ sends lasting ∷ gets resuming ∷ sends (leaving None) ∷ Close ∷ []) ≡ 5 ∷ 4 ∷ [] }
    ensures known { applying client C13 (Open ∷ sends lasting ∷ gets accepting ∷ Close ∷ Open ∷ sends again ∷ gets resuming ∷ sends Pingreq ∷ Close ∷ []) ≡ [] }
    ensures closed { applying client C23 (Open ∷ sends lasting ∷ gets accepting ∷ Rest ∷ sends (leaving None) ∷ Close ∷ []) ≡ 6 ∷ [] }
    ensures closed_refused { applying server C23 (Open ∷ gets lasting ∷ sends refusing ∷ Close ∷ []) ≡ 4 ∷ [] }
{}

/// What the peer lets an end send (C14 to C18).
pub fn places_of_peer_limits()
    ensures size { applying client C14 (Open ∷ sends lasting ∷ gets (limiting false None None None (Some 10)) ∷ sends_sized 9 at_most_once ∷ []) ≡ 4 ∷ [] }
    ensures any_size { applying client C14 (Open ∷ sends lasting ∷ gets accepting ∷ sends_sized 9 at_most_once ∷ []) ≡ [] }
    ensures alias { applying client C15 (Open ∷ sends lasting ∷ gets accepting ∷ sends (aliased (97 ∷ []) 6) ∷ []) ≡ 4 ∷ [] }
    ensures no_alias { applying client C15 (Open ∷ sends lasting ∷ gets (limiting false None (Some 5) None None) ∷ sends at_most_once ∷ []) ≡ [] }
    ensures used_alias { applying client C16 (Open ∷ sends lasting ∷ gets (limiting false None (Some 5) None None) ∷ sends (aliased (97 ∷ []) 5) ∷ sends (aliased [] 5) ∷ []) ≡ 5 ∷ [] }
    ensures qos { applying client C17 (Open ∷ sends lasting ∷ gets (limiting false None None (Some 1) None) ∷ sends at_most_once ∷ []) ≡ 4 ∷ [] }
    ensures any_qos { applying client C17 (Open ∷ sends lasting ∷ gets accepting ∷ sends (once false 1) ∷ []) ≡ [] }
    ensures publish { applying client C18 (Open ∷ sends lasting ∷ gets accepting ∷ sends at_most_once ∷ sends Pingreq ∷ []) ≡ 4 ∷ [] }
{}

/// What a DISCONNECT says of the session (C19 and C20).
pub fn places_of_leaving()
    ensures server_leaves { applying server C19 (Open ∷ gets lasting ∷ sends accepting ∷ sends (leaving None) ∷ []) ≡ 4 ∷ [] }
    ensures interval { applying client C20 (Open ∷ sends lasting ∷ gets accepting ∷ sends (leaving (Some 60)) ∷ []) ≡ 4 ∷ [] }
    ensures interval_zero { applying client C20 (Open ∷ sends lasting ∷ gets accepting ∷ sends (leaving (Some 0)) ∷ []) ≡ [] }
    ensures no_interval { applying client C20 (Open ∷ sends lasting ∷ gets accepting ∷ sends (leaving None) ∷ []) ≡ [] }
{}

/// An identifier is taken while one is in use (S01).
pub fn places_of_identifiers()
    ensures second { applying client S01 (Open ∷ sends lasting ∷ gets accepting ∷ sends (once false 1) ∷ sends (once false 2) ∷ []) ≡ 5 ∷ [] }
    ensures freed { applying client S01 (Open ∷ sends lasting ∷ gets accepting ∷ sends (once false 1) ∷ gets (Puback 1 0) ∷ sends (once false 1) ∷ []) ≡ [] }
    ensures subscribing { applying client S01 (Open ∷ sends lasting ∷ gets accepting ∷ sends (asks_a 1 0) ∷ sends (once false 2) ∷ gets (Suback 1 []) ∷ []) ≡ 5 ∷ [] }
    ensures subscribed { applying client S01 (Open ∷ sends lasting ∷ gets accepting ∷ sends (asks_a 1 0) ∷ gets (Suback 1 []) ∷ sends (once false 2) ∷ []) ≡ [] }
    ensures server_second { applying server S01 (Open ∷ gets lasting ∷ sends accepting ∷ sends (once false 1) ∷ sends (once false 2) ∷ []) ≡ 5 ∷ [] }
    ensures early { applying client S01 (Open ∷ sends lasting ∷ gets accepting ∷ sends (once false 1) ∷ Close ∷ Open ∷ sends again ∷ sends (once false 2) ∷ gets resuming ∷ []) ≡ 8 ∷ [] }
    ensures early_unknowing { applying client S01 (Open ∷ sends lasting ∷ gets accepting ∷ sends (once false 1) ∷ Close ∷ Open ∷ sends lasting ∷ sends (once false 2) ∷ gets resuming ∷ []) ≡ [] }
{}

/// What is sent again (S02 to S05).
pub fn places_of_resends()
    ensures resent { applying client S02 (Open ∷ sends lasting ∷ gets accepting ∷ sends (once false 1) ∷ Close ∷ Open ∷ sends again ∷ gets resuming ∷ sends (once true 1) ∷ []) ≡ 9 ∷ [] }
    ensures unknowing { applying client S02 (Open ∷ sends lasting ∷ gets accepting ∷ sends (once false 1) ∷ Close ∷ Open ∷ sends again ∷ sends (once true 1) ∷ gets accepting ∷ []) ≡ [] }
    ensures cut_off { applying client S02 (Open ∷ sends lasting ∷ gets accepting ∷ Cut ∷ Open ∷ sends again ∷ gets resuming ∷ sends (once true 1) ∷ []) ≡ [] }
    ensures resent_once { applying client S03 (Open ∷ sends lasting ∷ gets accepting ∷ sends (once false 1) ∷ Close ∷ Open ∷ sends again ∷ gets resuming ∷ sends (once true 1) ∷ []) ≡ 9 ∷ [] }
    ensures released { applying client S04 (Open ∷ sends lasting ∷ gets accepting ∷ sends (exactly false 1) ∷ gets (Pubrec 1 0) ∷ sends (Pubrel 1 0) ∷ Close ∷ Open ∷ sends again ∷ gets resuming ∷ sends (Pubrel 1 0) ∷ []) ≡ 11 ∷ [] }
    ensures not_released { applying client S04 (Open ∷ sends lasting ∷ gets accepting ∷ sends (exactly false 1) ∷ gets (Pubrec 1 0) ∷ Close ∷ Open ∷ sends again ∷ gets resuming ∷ sends (exactly true 1) ∷ []) ≡ [] }
    ensures second { applying client S05 (Open ∷ sends lasting ∷ gets accepting ∷ sends (once false 1) ∷ sends (once false 2) ∷ Close ∷ Open ∷ sends again ∷ gets resuming ∷ sends (once true 1) ∷ sends (once true 2) ∷ []) ≡ 11 ∷ [] }
    ensures second_not_open { applying client S05 (Open ∷ sends lasting ∷ gets accepting ∷ sends (once false 1) ∷ Close ∷ Open ∷ sends again ∷ gets resuming ∷ sends (once true 1) ∷ sends (once true 2) ∷ []) ≡ [] }
{}

/// What a resumed session owes, as a REST shows (S06).
pub fn places_of_redelivery()
    ensures owed { applying client S06 (Open ∷ sends lasting ∷ gets accepting ∷ sends (once false 1) ∷ Close ∷ Open ∷ sends again ∷ gets resuming ∷ Rest ∷ []) ≡ 4 ∷ [] }
    ensures waiting { applying client S06 (Open ∷ sends lasting ∷ gets accepting ∷ sends (once false 1) ∷ Close ∷ Open ∷ sends again ∷ gets resuming ∷ sends (once true 1) ∷ Rest ∷ []) ≡ [] }
    ensures completed { applying client S06 (Open ∷ sends lasting ∷ gets accepting ∷ sends (once false 1) ∷ Close ∷ Open ∷ sends again ∷ gets resuming ∷ sends (once true 1) ∷ gets (Puback 1 0) ∷ Rest ∷ []) ≡ 4 ∷ [] }
    ensures excused { applying client S06 (Open ∷ sends lasting ∷ gets accepting ∷ sends (retained_once 1) ∷ Close ∷ Open ∷ sends again ∷ gets (retaining (Some 0)) ∷ Rest ∷ []) ≡ 4 ∷ [] }
    ensures completed_before { applying client S06 (Open ∷ sends lasting ∷ gets accepting ∷ sends (once false 1) ∷ gets (Puback 1 0) ∷ Close ∷ Open ∷ sends again ∷ gets resuming ∷ Rest ∷ []) ≡ [] }
    ensures new { applying client S06 (Open ∷ sends lasting ∷ gets accepting ∷ sends (once false 1) ∷ Close ∷ Open ∷ sends again ∷ gets accepting ∷ Rest ∷ []) ≡ [] }
{}

/// A PUBLISH that takes the last of the send quota (S07).
pub fn places_of_quotas()
    ensures last { applying client S07 (Open ∷ sends lasting ∷ gets (limiting false (Some 2) None None None) ∷ sends (once false 1) ∷ sends (once false 2) ∷ []) ≡ 5 ∷ [] }
    ensures not_last { applying client S07 (Open ∷ sends lasting ∷ gets (limiting false (Some 2) None None None) ∷ sends (once false 1) ∷ gets (Puback 1 0) ∷ sends (once false 2) ∷ []) ≡ [] }
    ensures early { applying client S07 (Open ∷ sends lasting ∷ sends (once false 1) ∷ gets (limiting false (Some 1) None None None) ∷ []) ≡ [] }
    ensures server_last { applying server S07 (Open ∷ gets (asking None None (Some 1) None None) ∷ sends accepting ∷ sends (once false 1) ∷ []) ≡ 4 ∷ [] }
{}

/// Answers (E1A to E6A).
pub fn places_of_answers()
    ensures puback { applying client E1A (Open ∷ sends lasting ∷ gets accepting ∷ gets (once false 1) ∷ sends (Puback 1 0) ∷ []) ≡ 5 ∷ [] }
    ensures unknowing { applying client E1A (Open ∷ sends lasting ∷ gets accepting ∷ Close ∷ Open ∷ sends again ∷ sends (Puback 1 0) ∷ gets accepting ∷ []) ≡ [] }
    ensures pubrec { applying client E2A (Open ∷ sends lasting ∷ gets accepting ∷ gets (exactly false 1) ∷ sends (Pubrec 1 0) ∷ []) ≡ 5 ∷ [] }
    ensures pubrel { applying client E3A (Open ∷ sends lasting ∷ gets accepting ∷ gets (Pubrec 1 0) ∷ sends (Pubrel 1 0) ∷ []) ≡ 5 ∷ [] }
    ensures pubcomp { applying client E4A (Open ∷ sends lasting ∷ gets accepting ∷ gets (Pubrel 1 0) ∷ sends (Pubcomp 1 0) ∷ []) ≡ 5 ∷ [] }
    ensures suback { applying server E5A (Open ∷ gets lasting ∷ sends accepting ∷ gets (asks_a 1 0) ∷ sends (Suback 1 []) ∷ []) ≡ 5 ∷ [] }
    ensures unsuback { applying server E6A (Open ∷ gets lasting ∷ sends accepting ∷ gets (removes_a 1) ∷ sends (Unsuback 1 (0 ∷ [])) ∷ []) ≡ 5 ∷ [] }
{}

/// What asks for an answer, as a REST shows (E1R to E7R).
pub fn places_of_causes()
    ensures publish { applying client E1R (Open ∷ sends lasting ∷ gets accepting ∷ gets (once false 1) ∷ sends (Puback 1 0) ∷ Rest ∷ []) ≡ 4 ∷ [] }
    ensures first_of_two { applying client E1R (Open ∷ sends lasting ∷ gets accepting ∷ gets (once false 1) ∷ gets (once true 1) ∷ Rest ∷ []) ≡ 4 ∷ [] }
    ensures not_at_rest { applying client E1R (Open ∷ sends lasting ∷ gets accepting ∷ gets (once false 1) ∷ sends (Puback 1 0) ∷ Close ∷ []) ≡ [] }
    ensures publish_twice { applying client E2R (Open ∷ sends lasting ∷ gets accepting ∷ gets (exactly false 1) ∷ sends (Pubrec 1 0) ∷ Rest ∷ gets (exactly false 1) ∷ Rest ∷ []) ≡ 7 ∷ 4 ∷ [] }
    ensures pubrec { applying client E3R (Open ∷ sends lasting ∷ gets accepting ∷ gets (Pubrec 1 0) ∷ sends (Pubrel 1 0) ∷ Rest ∷ []) ≡ 4 ∷ [] }
    ensures pubrel { applying client E4R (Open ∷ sends lasting ∷ gets accepting ∷ gets (Pubrel 1 0) ∷ sends (Pubcomp 1 0) ∷ Rest ∷ []) ≡ 4 ∷ [] }
    ensures subscribe { applying server E5R (Open ∷ gets lasting ∷ sends accepting ∷ gets (asks_a 1 0) ∷ sends (Suback 1 []) ∷ Rest ∷ []) ≡ 4 ∷ [] }
    ensures unsubscribe { applying server E6R (Open ∷ gets lasting ∷ sends accepting ∷ gets (removes_a 1) ∷ sends (Unsuback 1 (0 ∷ [])) ∷ Rest ∷ []) ≡ 4 ∷ [] }
    ensures pingreq { applying server E7R (Open ∷ gets lasting ∷ sends accepting ∷ Rest ∷ gets Pingreq ∷ sends Pingresp ∷ Rest ∷ []) ≡ 7 ∷ [] }
{}

/// Answers while another one is owed (E1O to E3O).
pub fn places_of_order()
    ensures pubacks { applying client E1O (Open ∷ sends lasting ∷ gets accepting ∷ gets (once false 1) ∷ gets (once false 2) ∷ sends (Puback 1 0) ∷ sends (Puback 2 0) ∷ []) ≡ 6 ∷ [] }
    ensures pubrecs { applying client E2O (Open ∷ sends lasting ∷ gets accepting ∷ gets (exactly false 1) ∷ gets (exactly false 2) ∷ sends (Pubrec 1 0) ∷ sends (Pubrec 2 0) ∷ []) ≡ 6 ∷ [] }
    ensures pubrels { applying client E3O (Open ∷ sends lasting ∷ gets accepting ∷ gets (Pubrec 1 0) ∷ gets (Pubrec 2 0) ∷ sends (Pubrel 1 0) ∷ sends (Pubrel 2 0) ∷ []) ≡ 6 ∷ [] }
    ensures one_after_the_other { applying client E1O (Open ∷ sends lasting ∷ gets accepting ∷ gets (once false 1) ∷ sends (Puback 1 0) ∷ gets (once false 2) ∷ sends (Puback 2 0) ∷ []) ≡ [] }
{}

/// Releases of QoS 2 messages (L1 to L3).
pub fn places_of_releases()
    ensures asked { applying client L1 (Open ∷ sends lasting ∷ gets accepting ∷ gets (exactly false 1) ∷ Release 1 ∷ []) ≡ 5 ∷ [] }
    ensures not_placed { applying client L1 (Open ∷ sends lasting ∷ Release 1 ∷ gets accepting ∷ []) ≡ [] }
    ensures once_only { applying client L2 (Open ∷ sends lasting ∷ gets accepting ∷ gets (exactly false 1) ∷ Close ∷ Release 1 ∷ []) ≡ 6 ∷ [] }
    ensures completed { applying client L3 (Open ∷ sends lasting ∷ gets accepting ∷ gets (exactly false 1) ∷ gets (Pubrel 1 0) ∷ Release 1 ∷ sends (Pubcomp 1 0) ∷ []) ≡ 7 ∷ [] }
    ensures lapsed { applying client L3 (Open ∷ sends lasting ∷ gets accepting ∷ gets (expiring 1) ∷ gets (Pubrel 1 0) ∷ sends (Pubcomp 1 0) ∷ []) ≡ [] }
{}

/// What a server sends to whom (B01 to B04).
pub fn places_of_subscriptions()
    ensures delivered { applying server B01 (Open ∷ gets lasting ∷ sends accepting ∷ gets (asks_a 1 0) ∷ sends at_most_once ∷ []) ≡ 5 ∷ [] }
    ensures shared { applying server B01 (Open ∷ gets lasting ∷ sends accepting ∷ gets (asks_shared 1) ∷ sends at_most_once ∷ []) ≡ [] }
    ensures no_topic { applying server B01 (Open ∷ gets lasting ∷ sends accepting ∷ gets (asks_a 1 0) ∷ sends (aliased [] 5) ∷ []) ≡ [] }
    ensures qos { applying server B02 (Open ∷ gets lasting ∷ sends accepting ∷ gets (asks_a 1 1) ∷ sends (once false 1) ∷ sends at_most_once ∷ []) ≡ 5 ∷ [] }
    ensures suback { applying server B03 (Open ∷ gets lasting ∷ sends accepting ∷ gets (asks_a 1 0) ∷ sends (Suback 1 (0 ∷ [])) ∷ sends (Suback 1 (0 ∷ [])) ∷ []) ≡ 5 ∷ [] }
    ensures unsuback { applying server B04 (Open ∷ gets lasting ∷ sends accepting ∷ gets (removes_a 1) ∷ sends (Unsuback 1 (0 ∷ [])) ∷ sends (Unsuback 1 (0 ∷ [])) ∷ []) ≡ 5 ∷ [] }
{}

/// What a SUBACK grants (B05).
pub fn places_of_granted_qos()
    ensures granted { applying server_asked B05 (Open ∷ gets lasting ∷ sends accepting ∷ gets (asks_a 1 0) ∷ sends (Suback 1 (0 ∷ [])) ∷ sends (Suback 1 (0 ∷ [])) ∷ []) ≡ 5 ∷ [] }
    ensures above { applying server_asked B05 (Open ∷ gets lasting ∷ sends accepting ∷ gets (asks_a 1 0) ∷ sends (Suback 1 (1 ∷ [])) ∷ []) ≡ 5 ∷ [] }
    ensures refused { applying server_asked B05 (Open ∷ gets lasting ∷ sends accepting ∷ gets (asks_a 1 0) ∷ sends (Suback 1 (128 ∷ [])) ∷ []) ≡ [] }
    ensures in_part { applying server_asked B05 (Open ∷ gets lasting ∷ sends accepting ∷ gets (asks_both 1 0 0) ∷ sends (Suback 1 (135 ∷ 0 ∷ [])) ∷ []) ≡ 5 ∷ [] }
    ensures without_filter { applying server_asked B05 (Open ∷ gets lasting ∷ sends accepting ∷ gets (asks_a 1 0) ∷ sends (Suback 1 (135 ∷ 0 ∷ [])) ∷ []) ≡ [] }
    ensures without_code { applying server_asked B05 (Open ∷ gets lasting ∷ sends accepting ∷ gets (asks_a 1 0) ∷ sends (Suback 1 []) ∷ []) ≡ [] }
    ensures unasked { applying server B05 (Open ∷ gets lasting ∷ sends accepting ∷ gets (asks_a 1 0) ∷ sends (Suback 1 (0 ∷ [])) ∷ []) ≡ [] }
{}

/// What an UNSUBACK says of filters (B06 and B07).
pub fn places_of_unsubscribed()
    ensures denied { applying server_asked B06 (Open ∷ gets lasting ∷ sends accepting ∷ gets (asks_a 1 0) ∷ sends (Suback 1 (0 ∷ [])) ∷ gets (removes_a 2) ∷ sends (Unsuback 2 (17 ∷ [])) ∷ []) ≡ 7 ∷ [] }
    ensures removed { applying server_asked B06 (Open ∷ gets lasting ∷ sends accepting ∷ gets (asks_a 1 0) ∷ sends (Suback 1 (0 ∷ [])) ∷ gets (removes_a 2) ∷ sends (Unsuback 2 (0 ∷ [])) ∷ []) ≡ 7 ∷ [] }
    ensures failed { applying server_asked B06 (Open ∷ gets lasting ∷ sends accepting ∷ gets (asks_a 1 0) ∷ sends (Suback 1 (0 ∷ [])) ∷ gets (removes_a 2) ∷ sends (Unsuback 2 (128 ∷ [])) ∷ []) ≡ [] }
    ensures not_answered { applying server_asked B06 (Open ∷ gets lasting ∷ sends accepting ∷ gets (asks_a 1 0) ∷ gets (removes_a 2) ∷ sends (Unsuback 2 (17 ∷ [])) ∷ []) ≡ [] }
    ensures refused { applying server_asked B06 (Open ∷ gets lasting ∷ sends accepting ∷ gets (asks_a 1 0) ∷ sends (Suback 1 (135 ∷ [])) ∷ gets (removes_a 2) ∷ sends (Unsuback 2 (17 ∷ [])) ∷ []) ≡ [] }
    ensures removed_before { applying server_asked B06 (Open ∷ gets lasting ∷ sends accepting ∷ gets (asks_a 1 0) ∷ sends (Suback 1 (0 ∷ [])) ∷ gets (removes_a 2) ∷ sends (Unsuback 2 (0 ∷ [])) ∷ gets (removes_a 3) ∷ sends (Unsuback 3 (17 ∷ [])) ∷ []) ≡ 7 ∷ [] }
    ensures subscribed_again { applying server_asked B06 (Open ∷ gets lasting ∷ sends accepting ∷ gets (asks_a 1 0) ∷ sends (Suback 1 (0 ∷ [])) ∷ gets (removes_a 2) ∷ sends (Unsuback 2 (0 ∷ [])) ∷ gets (asks_a 3 0) ∷ sends (Suback 3 (0 ∷ [])) ∷ gets (removes_a 4) ∷ sends (Unsuback 4 (0 ∷ [])) ∷ []) ≡ 11 ∷ 7 ∷ [] }
    ensures first_place { applying server_asked B06 (Open ∷ gets lasting ∷ sends accepting ∷ gets (asks_a 1 0) ∷ sends (Suback 1 (0 ∷ [])) ∷ gets (removes_twice 2) ∷ sends (Unsuback 2 (0 ∷ 17 ∷ [])) ∷ []) ≡ 7 ∷ [] }
    ensures not_first_place { applying server_asked B06 (Open ∷ gets lasting ∷ sends accepting ∷ gets (asks_a 1 0) ∷ sends (Suback 1 (0 ∷ [])) ∷ gets (removes_twice 2) ∷ sends (Unsuback 2 (128 ∷ 17 ∷ [])) ∷ []) ≡ [] }
    ensures second_filter { applying server_asked B06 (Open ∷ gets lasting ∷ sends accepting ∷ gets (asks_b 1 0) ∷ sends (Suback 1 (0 ∷ [])) ∷ gets (removes_both 2) ∷ sends (Unsuback 2 (17 ∷ 17 ∷ [])) ∷ []) ≡ 7 ∷ [] }
    ensures second_failed { applying server_asked B06 (Open ∷ gets lasting ∷ sends accepting ∷ gets (asks_b 1 0) ∷ sends (Suback 1 (0 ∷ [])) ∷ gets (removes_both 2) ∷ sends (Unsuback 2 (17 ∷ 128 ∷ [])) ∷ []) ≡ [] }
    ensures without_code { applying server_asked B06 (Open ∷ gets lasting ∷ sends accepting ∷ gets (asks_b 1 0) ∷ sends (Suback 1 (0 ∷ [])) ∷ gets (removes_both 2) ∷ sends (Unsuback 2 (17 ∷ [])) ∷ []) ≡ [] }
    ensures granted_last { applying server_asked B06 (Open ∷ gets lasting ∷ sends accepting ∷ gets (asks_twice 1) ∷ sends (Suback 1 (135 ∷ 0 ∷ [])) ∷ gets (removes_a 2) ∷ sends (Unsuback 2 (17 ∷ [])) ∷ []) ≡ 7 ∷ [] }
    ensures granted_first { applying server_asked B06 (Open ∷ gets lasting ∷ sends accepting ∷ gets (asks_twice 1) ∷ sends (Suback 1 (0 ∷ 135 ∷ [])) ∷ gets (removes_a 2) ∷ sends (Unsuback 2 (17 ∷ [])) ∷ []) ≡ [] }
    ensures first_answer { applying server_asked B06 (Open ∷ gets lasting ∷ sends accepting ∷ gets (asks_a 1 0) ∷ sends (Suback 1 (0 ∷ [])) ∷ gets (removes_a 2) ∷ sends (Unsuback 2 (0 ∷ [])) ∷ sends (Unsuback 2 (0 ∷ [])) ∷ []) ≡ 7 ∷ [] }
    ensures unknown_identifier { applying server_asked B06 (Open ∷ gets lasting ∷ sends accepting ∷ gets (asks_a 1 0) ∷ sends (Suback 1 (0 ∷ [])) ∷ gets (removes_a 2) ∷ sends (Unsuback 3 (0 ∷ [])) ∷ []) ≡ [] }
    ensures overtaken { applying server_asked B06 (Open ∷ gets lasting ∷ sends accepting ∷ gets (asks_a 1 0) ∷ sends (Suback 1 (0 ∷ [])) ∷ gets (removes_a 2) ∷ gets (removes_a 3) ∷ sends (Unsuback 3 (0 ∷ [])) ∷ sends (Unsuback 2 (0 ∷ [])) ∷ []) ≡ [] }
    ensures in_use { applying server_asked B06 (Open ∷ gets lasting ∷ sends accepting ∷ gets (asks_b 1 0) ∷ gets (asks_a 1 0) ∷ sends (Suback 1 (0 ∷ [])) ∷ sends (Suback 1 (0 ∷ [])) ∷ gets (removes_a 2) ∷ sends (Unsuback 2 (0 ∷ [])) ∷ []) ≡ [] }
    ensures in_new_session { applying server_asked B06 (Open ∷ gets lasting ∷ sends accepting ∷ gets (asks_a 1 0) ∷ sends (Suback 1 (0 ∷ [])) ∷ Close ∷ Open ∷ gets lasting ∷ sends accepting ∷ gets (removes_a 2) ∷ sends (Unsuback 2 (17 ∷ [])) ∷ []) ≡ [] }
    ensures in_resumed_session { applying server_asked B06 (Open ∷ gets lasting ∷ sends accepting ∷ gets (asks_a 1 0) ∷ sends (Suback 1 (0 ∷ [])) ∷ Close ∷ Open ∷ gets again ∷ sends resuming ∷ gets (removes_a 2) ∷ sends (Unsuback 2 (0 ∷ [])) ∷ []) ≡ 11 ∷ [] }
    ensures on_next_connection { applying server_asked B06 (Open ∷ gets lasting ∷ sends accepting ∷ gets (asks_a 1 0) ∷ sends (Suback 1 (0 ∷ [])) ∷ gets (removes_a 2) ∷ Close ∷ Open ∷ gets again ∷ sends resuming ∷ sends (Unsuback 2 (0 ∷ [])) ∷ []) ≡ [] }
    ensures early { applying server_asked B06 (Open ∷ gets lasting ∷ gets (asks_a 1 0) ∷ sends (Suback 1 (0 ∷ [])) ∷ gets (removes_a 2) ∷ sends (Unsuback 2 (0 ∷ [])) ∷ sends accepting ∷ []) ≡ 6 ∷ [] }
    ensures turned_away { applying server_asked B06 (Open ∷ gets lasting ∷ gets (asks_a 1 0) ∷ sends (Suback 1 (0 ∷ [])) ∷ gets (removes_a 2) ∷ sends (Unsuback 2 (0 ∷ [])) ∷ sends refusing ∷ []) ≡ [] }
    ensures bad_subscribe { applying server_asked B06 (Open ∷ gets lasting ∷ sends accepting ∷ gets (asks_a 1 0) ∷ sends (Suback 1 (0 ∷ [])) ∷ gets_bad 130 packets.W15 ∷ gets (removes_a 2) ∷ sends (Unsuback 2 (0 ∷ [])) ∷ []) ≡ [] }
    ensures bad_unsubscribe_before { applying server_asked B06 (Open ∷ gets lasting ∷ sends accepting ∷ gets (asks_a 1 0) ∷ sends (Suback 1 (0 ∷ [])) ∷ gets_bad 162 packets.W15 ∷ Close ∷ Open ∷ gets again ∷ sends resuming ∷ gets (removes_a 2) ∷ sends (Unsuback 2 (0 ∷ [])) ∷ []) ≡ [] }
    ensures bad_publish { applying server_asked B06 (Open ∷ gets lasting ∷ sends accepting ∷ gets (asks_a 1 0) ∷ sends (Suback 1 (0 ∷ [])) ∷ gets_bad 48 packets.W14 ∷ gets (removes_a 2) ∷ sends (Unsuback 2 (0 ∷ [])) ∷ []) ≡ 8 ∷ [] }
    ensures bad_unsubscribe_on_void { applying server_asked B06 (Open ∷ gets lasting ∷ sends accepting ∷ gets (asks_a 1 0) ∷ sends (Suback 1 (0 ∷ [])) ∷ Close ∷ Open ∷ gets again ∷ gets_bad 162 packets.W15 ∷ Close ∷ Open ∷ gets again ∷ sends resuming ∷ gets (removes_a 2) ∷ sends (Unsuback 2 (0 ∷ [])) ∷ []) ≡ [] }
    ensures lost { applying server_asked B06 (Open ∷ gets lasting ∷ sends accepting ∷ gets (asks_a 1 0) ∷ sends (Suback 1 (0 ∷ [])) ∷ gets (removes_a 2) ∷ gets_lost ∷ sends (Unsuback 2 (0 ∷ [])) ∷ []) ≡ [] }
    ensures lost_in_session_before { applying server_asked B06 (Open ∷ gets lasting ∷ sends accepting ∷ gets_lost ∷ Close ∷ Open ∷ gets lasting ∷ sends accepting ∷ gets (asks_a 1 0) ∷ sends (Suback 1 (0 ∷ [])) ∷ gets (removes_a 2) ∷ sends (Unsuback 2 (0 ∷ [])) ∷ []) ≡ 12 ∷ [] }
    ensures unasked { applying server B06 (Open ∷ gets lasting ∷ sends accepting ∷ gets (asks_a 1 0) ∷ sends (Suback 1 (0 ∷ [])) ∷ gets (removes_a 2) ∷ sends (Unsuback 2 (0 ∷ [])) ∷ []) ≡ [] }
    ensures of_client { applying client_asked B06 (Open ∷ sends lasting ∷ gets accepting ∷ gets (asks_a 1 0) ∷ sends (Suback 1 (0 ∷ [])) ∷ gets (removes_a 2) ∷ sends (Unsuback 2 (0 ∷ [])) ∷ []) ≡ [] }
    ensures deleted_never_subscribed { applying server_asked B07 (Open ∷ gets lasting ∷ sends accepting ∷ gets (removes_a 1) ∷ sends (Unsuback 1 (0 ∷ [])) ∷ []) ≡ 5 ∷ [] }
    ensures denied_never_subscribed { applying server_asked B07 (Open ∷ gets lasting ∷ sends accepting ∷ gets (removes_a 1) ∷ sends (Unsuback 1 (17 ∷ [])) ∷ []) ≡ 5 ∷ [] }
    ensures failed_never_subscribed { applying server_asked B07 (Open ∷ gets lasting ∷ sends accepting ∷ gets (removes_a 1) ∷ sends (Unsuback 1 (128 ∷ [])) ∷ []) ≡ [] }
    ensures deleted_subscribed { applying server_asked B07 (Open ∷ gets lasting ∷ sends accepting ∷ gets (asks_a 1 0) ∷ sends (Suback 1 (0 ∷ [])) ∷ gets (removes_a 2) ∷ sends (Unsuback 2 (0 ∷ [])) ∷ []) ≡ 7 ∷ [] }
    ensures denied_subscribed { applying server_asked B07 (Open ∷ gets lasting ∷ sends accepting ∷ gets (asks_a 1 0) ∷ sends (Suback 1 (0 ∷ [])) ∷ gets (removes_a 2) ∷ sends (Unsuback 2 (17 ∷ [])) ∷ []) ≡ [] }
    ensures deleted_waiting { applying server_asked B07 (Open ∷ gets lasting ∷ sends accepting ∷ gets (asks_a 1 0) ∷ gets (removes_a 2) ∷ sends (Unsuback 2 (0 ∷ [])) ∷ []) ≡ 6 ∷ [] }
    ensures denied_waiting { applying server_asked B07 (Open ∷ gets lasting ∷ sends accepting ∷ gets (asks_a 1 0) ∷ gets (removes_a 2) ∷ sends (Unsuback 2 (17 ∷ [])) ∷ []) ≡ [] }
    ensures denied_refused { applying server_asked B07 (Open ∷ gets lasting ∷ sends accepting ∷ gets (asks_a 1 0) ∷ sends (Suback 1 (135 ∷ [])) ∷ gets (removes_a 2) ∷ sends (Unsuback 2 (17 ∷ [])) ∷ []) ≡ 7 ∷ [] }
    ensures denied_refused_after { applying server_asked B07 (Open ∷ gets lasting ∷ sends accepting ∷ gets (asks_a 1 0) ∷ gets (removes_a 2) ∷ sends (Suback 1 (135 ∷ [])) ∷ sends (Unsuback 2 (17 ∷ [])) ∷ []) ≡ 7 ∷ [] }
    ensures denied_again { applying server_asked B07 (Open ∷ gets lasting ∷ sends accepting ∷ gets (asks_a 1 0) ∷ sends (Suback 1 (0 ∷ [])) ∷ gets (removes_a 2) ∷ sends (Unsuback 2 (0 ∷ [])) ∷ gets (removes_a 3) ∷ sends (Unsuback 3 (17 ∷ [])) ∷ []) ≡ 7 ∷ [] }
    ensures deleted_again { applying server_asked B07 (Open ∷ gets lasting ∷ sends accepting ∷ gets (asks_a 1 0) ∷ sends (Suback 1 (0 ∷ [])) ∷ gets (removes_a 2) ∷ sends (Unsuback 2 (0 ∷ [])) ∷ gets (removes_a 3) ∷ sends (Unsuback 3 (0 ∷ [])) ∷ []) ≡ 9 ∷ 7 ∷ [] }
    ensures one_of_both { applying server_asked B07 (Open ∷ gets lasting ∷ sends accepting ∷ gets (asks_a 1 0) ∷ sends (Suback 1 (0 ∷ [])) ∷ gets (removes_both 2) ∷ sends (Unsuback 2 (17 ∷ 17 ∷ [])) ∷ []) ≡ 7 ∷ [] }
    ensures none_of_both { applying server_asked B07 (Open ∷ gets lasting ∷ sends accepting ∷ gets (asks_a 1 0) ∷ sends (Suback 1 (0 ∷ [])) ∷ gets (removes_both 2) ∷ sends (Unsuback 2 (17 ∷ 128 ∷ [])) ∷ []) ≡ [] }
    ensures too_few_codes { applying server_asked B07 (Open ∷ gets lasting ∷ sends accepting ∷ gets (asks_a 1 0) ∷ sends (Suback 1 (0 ∷ [])) ∷ gets (removes_both 2) ∷ sends (Unsuback 2 (17 ∷ [])) ∷ []) ≡ [] }
    ensures answered_once { applying server_asked B07 (Open ∷ gets lasting ∷ sends accepting ∷ gets (removes_a 1) ∷ sends (Unsuback 1 (0 ∷ [])) ∷ sends (Unsuback 1 (0 ∷ [])) ∷ []) ≡ 5 ∷ [] }
    ensures answer_to_none { applying server_asked B07 (Open ∷ gets lasting ∷ sends accepting ∷ gets (removes_a 1) ∷ sends (Unsuback 2 (0 ∷ [])) ∷ []) ≡ [] }
    ensures denied_in_use { applying server_asked B07 (Open ∷ gets lasting ∷ sends accepting ∷ gets (asks_b 1 0) ∷ gets (asks_a 1 0) ∷ sends (Suback 1 (0 ∷ [])) ∷ sends (Suback 1 (145 ∷ [])) ∷ gets (removes_a 2) ∷ sends (Unsuback 2 (17 ∷ [])) ∷ []) ≡ [] }
    ensures denied_anew { applying server_asked B07 (Open ∷ gets lasting ∷ sends accepting ∷ gets (asks_a 1 0) ∷ sends (Suback 1 (0 ∷ [])) ∷ Close ∷ Open ∷ gets lasting ∷ sends accepting ∷ gets (removes_a 2) ∷ sends (Unsuback 2 (17 ∷ [])) ∷ []) ≡ 11 ∷ [] }
    ensures denied_resumed { applying server_asked B07 (Open ∷ gets lasting ∷ sends accepting ∷ gets (asks_a 1 0) ∷ sends (Suback 1 (0 ∷ [])) ∷ Close ∷ Open ∷ gets again ∷ sends resuming ∷ gets (removes_a 2) ∷ sends (Unsuback 2 (17 ∷ [])) ∷ []) ≡ [] }
    ensures deleted_resumed { applying server_asked B07 (Open ∷ gets lasting ∷ sends accepting ∷ gets (asks_a 1 0) ∷ sends (Suback 1 (0 ∷ [])) ∷ Close ∷ Open ∷ gets again ∷ sends resuming ∷ gets (removes_a 2) ∷ sends (Unsuback 2 (0 ∷ [])) ∷ []) ≡ 11 ∷ [] }
    ensures before_connack { applying server_asked B07 (Open ∷ gets lasting ∷ gets (removes_a 1) ∷ sends (Unsuback 1 (17 ∷ [])) ∷ sends accepting ∷ []) ≡ 4 ∷ [] }
    ensures not_accepted { applying server_asked B07 (Open ∷ gets lasting ∷ gets (removes_a 1) ∷ sends (Unsuback 1 (17 ∷ [])) ∷ sends refusing ∷ []) ≡ [] }
    ensures unreadable_subscribe { applying server_asked B07 (Open ∷ gets lasting ∷ sends accepting ∷ gets_bad 130 packets.W15 ∷ gets (removes_a 2) ∷ sends (Unsuback 2 (0 ∷ [])) ∷ []) ≡ [] }
    ensures unreadable_unsubscribe { applying server_asked B07 (Open ∷ gets lasting ∷ sends accepting ∷ gets_bad 162 packets.W15 ∷ gets (removes_a 2) ∷ sends (Unsuback 2 (17 ∷ [])) ∷ []) ≡ [] }
    ensures unreadable_stream { applying server_asked B07 (Open ∷ gets lasting ∷ sends accepting ∷ gets (removes_a 1) ∷ gets_lost ∷ sends (Unsuback 1 (17 ∷ [])) ∷ []) ≡ [] }
    ensures unreadable_publish { applying server_asked B07 (Open ∷ gets lasting ∷ sends accepting ∷ gets_bad 48 packets.W14 ∷ gets (removes_a 2) ∷ sends (Unsuback 2 (17 ∷ [])) ∷ []) ≡ 6 ∷ [] }
    ensures unreadable_after { applying server_asked B07 (Open ∷ gets lasting ∷ sends accepting ∷ gets (removes_a 2) ∷ sends (Unsuback 2 (17 ∷ [])) ∷ gets_bad 130 packets.W15 ∷ []) ≡ 5 ∷ [] }
    ensures unreadable_earlier { applying server_asked B07 (Open ∷ gets lasting ∷ sends accepting ∷ gets_bad 130 packets.W15 ∷ Close ∷ Open ∷ gets again ∷ sends resuming ∷ gets (removes_a 2) ∷ sends (Unsuback 2 (0 ∷ [])) ∷ []) ≡ [] }
    ensures unreadable_void { applying server_asked B07 (Open ∷ gets lasting ∷ sends accepting ∷ Close ∷ Open ∷ gets again ∷ gets_lost ∷ Close ∷ Open ∷ gets again ∷ sends resuming ∷ gets (removes_a 2) ∷ sends (Unsuback 2 (0 ∷ [])) ∷ []) ≡ [] }
    ensures unreadable_session { applying server_asked B07 (Open ∷ gets lasting ∷ sends accepting ∷ gets_bad 130 packets.W15 ∷ Close ∷ Open ∷ gets lasting ∷ sends accepting ∷ gets (removes_a 2) ∷ sends (Unsuback 2 (0 ∷ [])) ∷ []) ≡ 10 ∷ [] }
    ensures not_asked { applying server B07 (Open ∷ gets lasting ∷ sends accepting ∷ gets (removes_a 2) ∷ sends (Unsuback 2 (0 ∷ [])) ∷ []) ≡ [] }
    ensures client { applying client_asked B07 (Open ∷ sends lasting ∷ gets accepting ∷ gets (removes_a 2) ∷ sends (Unsuback 2 (0 ∷ [])) ∷ []) ≡ [] }
{}

/// Ends that a statement doesn't bind, releases that aren't recorded, a session that is unknown,
/// and a connection that is undecided: no places.
pub fn places_of_nothing()
    ensures server_begins { applying server C02 (Open ∷ gets lasting ∷ sends accepting ∷ []) ≡ [] }
    ensures client_answers { applying client E5A (Open ∷ sends lasting ∷ gets accepting ∷ sends (Suback 1 []) ∷ []) ≡ [] }
    ensures unrecorded { applying client_unrecorded L1 (Open ∷ sends lasting ∷ gets accepting ∷ gets (exactly false 1) ∷ Release 1 ∷ []) ≡ [] }
    ensures undecided { applying client E1A (Open ∷ sends lasting ∷ sends (Puback 1 0) ∷ []) ≡ [] }
    ensures refused { applying client E1A (Open ∷ sends lasting ∷ sends (Puback 1 0) ∷ gets refusing ∷ []) ≡ [] }
    ensures unknown { applying server E1A (Open ∷ gets lasting ∷ sends accepting ∷ Close ∷ Open ∷ gets lasting ∷ Close ∷ Open ∷ gets again ∷ sends resuming ∷ gets (once false 1) ∷ sends (Puback 1 0) ∷ []) ≡ [] }
{}

/// What a client with an Authentication Method sends before a CONNACK (A01).
pub fn places_before_a_connack()
    ensures sent { applying client_asked A01 (Open ∷ sends with_method ∷ sends auth_alone ∷ sends with_method ∷ sends_bad 192 packets.W01 ∷ sends_lost ∷ sends (leaving_by 0) ∷ []) ≡ 7 ∷ 5 ∷ 3 ∷ [] }
    ensures answered { applying client_asked A01 (Open ∷ sends with_method ∷ sends auth_alone ∷ gets naming_method ∷ sends Pingreq ∷ []) ≡ 3 ∷ [] }
    ensures plain { applying client_asked A01 (Open ∷ sends lasting ∷ sends auth_alone ∷ []) ≡ [] }
    ensures unasked { applying client A01 (Open ∷ sends with_method ∷ sends auth_alone ∷ []) ≡ [] }
{}

/// What a server does after a CONNECT (C24).
pub fn places_after_a_connect()
    ensures answered { applying server_asked C24 (Open ∷ gets lasting ∷ sends accepting ∷ Rest ∷ []) ≡ 2 ∷ [] }
    ensures refused { applying server_asked C24 (Open ∷ gets lasting ∷ sends refusing ∷ []) ≡ 2 ∷ [] }
    ensures left_open { applying server_asked C24 (Open ∷ gets lasting ∷ Rest ∷ Rest ∷ []) ≡ 2 ∷ [] }
    ensures answered_late { applying server_asked C24 (Open ∷ gets lasting ∷ Rest ∷ sends accepting ∷ []) ≡ 2 ∷ [] }
    ensures waiting { applying server_asked C24 (Open ∷ gets with_method ∷ sends auth_alone ∷ Rest ∷ []) ≡ [] }
    ensures waited { applying server_asked C24 (Open ∷ gets with_method ∷ sends auth_alone ∷ Rest ∷ gets auth_alone ∷ Rest ∷ []) ≡ 2 ∷ [] }
    ensures closed { applying server_asked C24 (Open ∷ gets lasting ∷ Close ∷ []) ≡ [] }
    ensures second { applying server_asked C24 (Open ∷ gets lasting ∷ sends accepting ∷ gets lasting ∷ sends accepting ∷ []) ≡ 2 ∷ [] }
    ensures after_bytes { applying server_asked C24 (Open ∷ gets_bad 16 packets.W13 ∷ gets lasting ∷ sends accepting ∷ []) ≡ [] }
    ensures small { applying server_asked C24 (Open ∷ gets (asking None None None None (Some 4)) ∷ sends accepting ∷ []) ≡ [] }
    ensures large_enough { applying server_asked C24 (Open ∷ gets (asking None None None None (Some 5)) ∷ sends accepting ∷ []) ≡ 2 ∷ [] }
    ensures connack_before { applying server_asked C24 (Open ∷ sends accepting ∷ gets lasting ∷ Rest ∷ []) ≡ [] }
    ensures connacks_around { applying server_asked C24 (Open ∷ sends accepting ∷ gets lasting ∷ sends accepting ∷ []) ≡ 3 ∷ [] }
    ensures after_goodbye { applying server_asked C24 (Open ∷ gets lasting ∷ gets (leaving None) ∷ sends accepting ∷ []) ≡ 2 ∷ [] }
    ensures anew { applying server_asked C24 (Open ∷ gets lasting ∷ sends accepting ∷ Close ∷ Open ∷ gets lasting ∷ Rest ∷ []) ≡ 6 ∷ 2 ∷ [] }
    ensures unasked { applying server C24 (Open ∷ gets lasting ∷ Rest ∷ []) ≡ [] }
{}

/// What a server does after a Malformed Packet (D01).
pub fn places_after_a_malformed_packet()
    ensures rested { applying server_asked D01 (Open ∷ gets lasting ∷ sends accepting ∷ gets_bad 192 packets.W01 ∷ Rest ∷ Rest ∷ []) ≡ 4 ∷ [] }
    ensures closed { applying server_asked D01 (Open ∷ gets lasting ∷ sends accepting ∷ gets_bad 192 packets.W01 ∷ Close ∷ []) ≡ 4 ∷ [] }
    ensures goodbye { applying server_asked D01 (Open ∷ gets lasting ∷ sends accepting ∷ gets_bad 192 packets.W01 ∷ sends (leaving_by 129) ∷ []) ≡ 4 ∷ [] }
    ensures refused { applying server_asked D01 (Open ∷ gets_bad 16 packets.W04 ∷ gets_bad 16 packets.W04 ∷ sends refusing ∷ []) ≡ 2 ∷ [] }
    ensures lost { applying server_asked D01 (Open ∷ gets lasting ∷ sends accepting ∷ gets_lost ∷ Close ∷ []) ≡ 4 ∷ [] }
    ensures readable { applying server_asked D01 (Open ∷ gets lasting ∷ sends accepting ∷ gets_bad 192 packets.W03 ∷ Close ∷ []) ≡ [] }
    ensures unseen { applying server_asked D01 (Open ∷ gets lasting ∷ sends accepting ∷ Rest ∷ gets_bad 192 packets.W01 ∷ sends Pingresp ∷ []) ≡ [] }
    ensures anew { applying server_asked D01 (Open ∷ gets_bad 16 packets.W04 ∷ Close ∷ Open ∷ gets lasting ∷ gets_bad 192 packets.W01 ∷ Close ∷ []) ≡ 6 ∷ 2 ∷ [] }
    ensures left { applying server_asked D01 (Open ∷ gets lasting ∷ gets (leaving None) ∷ gets_bad 192 packets.W01 ∷ Close ∷ []) ≡ [] }
    ensures unasked { applying server D01 (Open ∷ gets lasting ∷ gets_bad 192 packets.W01 ∷ Rest ∷ []) ≡ [] }
{}

/// What a server does after a second CONNECT (D02).
pub fn places_after_a_second_connect()
    ensures rested { applying server_asked D02 (Open ∷ gets lasting ∷ sends accepting ∷ gets lasting ∷ Rest ∷ Rest ∷ []) ≡ 4 ∷ [] }
    ensures closed { applying server_asked D02 (Open ∷ gets lasting ∷ sends accepting ∷ gets lasting ∷ Close ∷ []) ≡ 4 ∷ [] }
    ensures goodbye { applying server_asked D02 (Open ∷ gets lasting ∷ sends accepting ∷ gets lasting ∷ sends (leaving_by 130) ∷ []) ≡ 4 ∷ [] }
    ensures refused { applying server_asked D02 (Open ∷ gets lasting ∷ gets lasting ∷ gets lasting ∷ sends refusing ∷ []) ≡ 3 ∷ [] }
    ensures unseen { applying server_asked D02 (Open ∷ gets lasting ∷ sends accepting ∷ Rest ∷ gets lasting ∷ sends Pingresp ∷ []) ≡ [] }
    ensures anew { applying server_asked D02 (Open ∷ gets lasting ∷ gets lasting ∷ Close ∷ Open ∷ gets lasting ∷ gets lasting ∷ Close ∷ []) ≡ 7 ∷ 3 ∷ [] }
    ensures left { applying server_asked D02 (Open ∷ gets lasting ∷ gets (leaving None) ∷ gets lasting ∷ Close ∷ []) ≡ [] }
    ensures unasked { applying server D02 (Open ∷ gets lasting ∷ gets lasting ∷ Rest ∷ []) ≡ [] }
{}

/// What a server does after a Protocol Error (D03).
pub fn places_after_a_protocol_error()
    ensures rested { applying server_asked D03 (Open ∷ gets lasting ∷ sends accepting ∷ gets Pingresp ∷ Rest ∷ Rest ∷ []) ≡ 4 ∷ [] }
    ensures closed { applying server_asked D03 (Open ∷ gets lasting ∷ sends accepting ∷ gets Pingresp ∷ Close ∷ []) ≡ 4 ∷ [] }
    ensures goodbye { applying server_asked D03 (Open ∷ gets lasting ∷ sends accepting ∷ gets Pingresp ∷ sends (leaving_by 130) ∷ []) ≡ 4 ∷ [] }
    ensures refused { applying server_asked D03 (Open ∷ gets Pingreq ∷ gets lasting ∷ sends refusing ∷ []) ≡ 2 ∷ [] }
    ensures first_alone { applying server_asked D03 (Open ∷ gets lasting ∷ sends accepting ∷ gets Pingresp ∷ gets subscribed ∷ Close ∷ []) ≡ 4 ∷ [] }
    ensures fitting { applying server_asked D03 (Open ∷ gets lasting ∷ sends accepting ∷ gets Pingreq ∷ sends Pingresp ∷ Close ∷ []) ≡ [] }
    ensures unseen { applying server_asked D03 (Open ∷ gets lasting ∷ sends accepting ∷ Rest ∷ gets Pingresp ∷ sends Pingresp ∷ []) ≡ [] }
    ensures anew { applying server_asked D03 (Open ∷ gets Pingreq ∷ Close ∷ Open ∷ gets lasting ∷ gets Pingresp ∷ Close ∷ []) ≡ 6 ∷ 2 ∷ [] }
    ensures left { applying server_asked D03 (Open ∷ gets lasting ∷ gets (leaving None) ∷ gets Pingresp ∷ Close ∷ []) ≡ [] }
    ensures prolonging { applying server_asked D03 (Open ∷ gets fleeting ∷ sends accepting ∷ gets (leaving (Some 60)) ∷ Close ∷ []) ≡ 4 ∷ [] }
    ensures unasked { applying server D03 (Open ∷ gets lasting ∷ gets Pingresp ∷ Rest ∷ []) ≡ [] }
{}

/// What a server does after more QoS 2 PUBLISHes than its Receive Maximum (D05).
pub fn places_after_too_many_publishes()
    ensures rested { applying server_asked D05 (Open ∷ gets lasting ∷ sends (limiting false (Some 1) None None None) ∷ gets (exactly false 1) ∷ gets (exactly false 2) ∷ Rest ∷ Rest ∷ []) ≡ 5 ∷ [] }
    ensures closed { applying server_asked D05 (Open ∷ gets lasting ∷ sends (limiting false (Some 1) None None None) ∷ gets (exactly false 1) ∷ gets (exactly false 2) ∷ Close ∷ []) ≡ 5 ∷ [] }
    ensures goodbye { applying server_asked D05 (Open ∷ gets lasting ∷ sends (limiting false (Some 1) None None None) ∷ gets (exactly false 1) ∷ gets (exactly false 2) ∷ sends (leaving_by 147) ∷ []) ≡ 5 ∷ [] }
    ensures refused { applying server_asked D05 (Open ∷ gets lasting ∷ sends (limiting false (Some 1) None None None) ∷ gets (exactly false 1) ∷ gets (exactly false 2) ∷ sends (Pubrec 2 151) ∷ Rest ∷ []) ≡ [] }
    ensures refused_and_closed { applying server_asked D05 (Open ∷ gets lasting ∷ sends (limiting false (Some 1) None None None) ∷ gets (exactly false 1) ∷ sends (Pubrec 1 128) ∷ gets (exactly false 2) ∷ gets (exactly false 3) ∷ Close ∷ []) ≡ [] }
    ensures refused_after_rest { applying server_asked D05 (Open ∷ gets lasting ∷ sends (limiting false (Some 1) None None None) ∷ gets (exactly false 1) ∷ gets (exactly false 2) ∷ Rest ∷ sends (Pubrec 2 151) ∷ Close ∷ []) ≡ 5 ∷ [] }
    ensures first_alone { applying server_asked D05 (Open ∷ gets lasting ∷ sends (limiting false (Some 1) None None None) ∷ gets (exactly false 1) ∷ gets (exactly false 2) ∷ gets (exactly false 3) ∷ Close ∷ []) ≡ 5 ∷ [] }
    ensures fitting { applying server_asked D05 (Open ∷ gets lasting ∷ sends (limiting false (Some 1) None None None) ∷ gets (exactly false 1) ∷ sends (Pubrec 1 0) ∷ gets (Pubrel 1 0) ∷ gets (exactly false 2) ∷ Close ∷ []) ≡ [] }
    ensures once { applying server_asked D05 (Open ∷ gets lasting ∷ sends (limiting false (Some 1) None None None) ∷ gets (once false 1) ∷ gets (once false 2) ∷ Close ∷ []) ≡ [] }
    ensures before_connack { applying server_asked D05 (Open ∷ gets lasting ∷ gets (exactly false 1) ∷ gets (exactly false 2) ∷ sends (limiting false (Some 1) None None None) ∷ Close ∷ []) ≡ [] }
    ensures unseen { applying server_asked D05 (Open ∷ gets lasting ∷ sends (limiting false (Some 1) None None None) ∷ Rest ∷ gets (exactly false 1) ∷ gets (exactly false 2) ∷ sends (Pubrec 1 0) ∷ []) ≡ [] }
    ensures anew { applying server_asked D05 (Open ∷ gets lasting ∷ sends (limiting false (Some 1) None None None) ∷ gets (exactly false 1) ∷ gets (exactly false 2) ∷ Close ∷ Open ∷ gets again ∷ sends (limiting true (Some 1) None None None) ∷ gets (exactly true 1) ∷ gets (exactly true 2) ∷ Close ∷ []) ≡ 11 ∷ 5 ∷ [] }
    ensures left { applying server_asked D05 (Open ∷ gets lasting ∷ sends (limiting false (Some 1) None None None) ∷ gets (exactly false 1) ∷ gets (leaving None) ∷ gets (exactly false 2) ∷ Close ∷ []) ≡ [] }
    ensures unasked { applying server D05 (Open ∷ gets lasting ∷ sends (limiting false (Some 1) None None None) ∷ gets (exactly false 1) ∷ gets (exactly false 2) ∷ Close ∷ []) ≡ [] }
{}

/// What a server accepts in a CONNECT (F05 and F06), and enhanced authentication (A02).
pub fn places_of_further_statements()
    ensures will_qos { applying server_asked F05 (Open ∷ gets (with_will quality.AtLeastOnce false) ∷ sends (announcing 0 (Some 1) None) ∷ []) ≡ 3 ∷ [] }
    ensures will_qos_refused { applying server_asked F05 (Open ∷ gets (with_will quality.ExactlyOnce false) ∷ sends (announcing 155 None None) ∷ []) ≡ 3 ∷ [] }
    ensures no_will { applying server_asked F05 (Open ∷ gets lasting ∷ sends (announcing 0 (Some 1) None) ∷ []) ≡ [] }
    ensures will_retain { applying server_asked F06 (Open ∷ gets (with_will quality.AtMostOnce false) ∷ sends (announcing 0 None (Some 0)) ∷ []) ≡ 3 ∷ [] }
    ensures will_retain_available { applying server_asked F06 (Open ∷ gets (with_will quality.AtMostOnce true) ∷ sends (announcing 0 None (Some 1)) ∷ []) ≡ [] }
    ensures method { applying server_asked A02 (Open ∷ gets lasting ∷ sends accepting ∷ []) ≡ 3 ∷ [] }
    ensures method_named { applying server_asked A02 (Open ∷ gets with_method ∷ sends naming_method ∷ []) ≡ [] }
    ensures method_auth { applying client_asked A02 (Open ∷ sends with_method ∷ sends auth_alone ∷ []) ≡ 3 ∷ [] }
    ensures unasked { applying server A02 (Open ∷ gets lasting ∷ sends accepting ∷ []) ≡ [] }
{}

/// That enhanced authentication goes by the method of the CONNECT (A03).
pub fn places_of_one_method()
    ensures sent { applying client_asked A03 (Open ∷ sends with_method ∷ sends (auth_by one_method) ∷ sends_sized 2 auth_alone ∷ sends auth_alone ∷ gets (auth_by one_method) ∷ []) ≡ 5 ∷ 3 ∷ [] }
    ensures refused { applying server_asked A03 (Open ∷ gets with_method ∷ sends (auth_by other_method) ∷ sends refusing ∷ []) ≡ 3 ∷ [] }
    ensures accepted { applying server_asked A03 (Open ∷ gets with_method ∷ sends accepting ∷ sends naming_method ∷ []) ≡ 4 ∷ 3 ∷ [] }
    ensures without_method { applying server_asked A03 (Open ∷ gets lasting ∷ sends naming_method ∷ sends auth_alone ∷ []) ≡ [] }
    ensures unasked { applying server A03 (Open ∷ gets with_method ∷ sends accepting ∷ []) ≡ [] }
{}

/// What a client asks of a server that hasn't got this (F01 to F04), shared subscriptions (V03 and
/// V04), and Reason Codes (V06).
pub fn places_of_further_values()
    ensures retain { applying client_asked F01 (Open ∷ sends lasting ∷ gets (lacking (Some 0) None None None) ∷ sends at_most_once ∷ []) ≡ 4 ∷ [] }
    ensures retain_again { applying client_asked F01 (Open ∷ sends lasting ∷ gets (lacking (Some 0) None None None) ∷ sends (retained_again 1) ∷ []) ≡ [] }
    ensures retain_unsaid { applying client_asked F01 (Open ∷ sends lasting ∷ gets accepting ∷ sends retained_at_most_once ∷ []) ≡ [] }
    ensures wildcard { applying client_asked F02 (Open ∷ sends lasting ∷ gets (lacking None (Some 0) None None) ∷ sends asks_plainly ∷ []) ≡ 4 ∷ [] }
    ensures wildcard_before { applying client_asked F02 (Open ∷ sends lasting ∷ sends asks_widely ∷ gets (lacking None (Some 0) None None) ∷ []) ≡ [] }
    ensures identifier { applying client_asked F03 (Open ∷ sends lasting ∷ gets (lacking None None (Some 0) None) ∷ sends asks_plainly ∷ []) ≡ 4 ∷ [] }
    ensures identifier_unsaid { applying client_asked F03 (Open ∷ sends lasting ∷ gets accepting ∷ sends asks_identified ∷ []) ≡ [] }
    ensures share { applying client_asked F04 (Open ∷ sends lasting ∷ gets (lacking None None None (Some 0)) ∷ sends asks_plainly ∷ []) ≡ 4 ∷ [] }
    ensures share_unsaid { applying client_asked F04 (Open ∷ sends lasting ∷ gets accepting ∷ sends asks_to_share ∷ []) ≡ [] }
    ensures name { applying client_asked V03 (Open ∷ sends lasting ∷ gets accepting ∷ sends asks_to_share ∷ []) ≡ 4 ∷ [] }
    ensures no_name { applying client_asked V03 (Open ∷ sends lasting ∷ gets accepting ∷ sends asks_plainly ∷ []) ≡ [] }
    ensures local { applying client_asked V04 (Open ∷ sends lasting ∷ gets accepting ∷ sends asks_to_share ∷ []) ≡ 4 ∷ [] }
    ensures no_share { applying client_asked V04 (Open ∷ sends lasting ∷ gets accepting ∷ sends asks_plainly ∷ []) ≡ [] }
    ensures code { applying client_asked V06 (Open ∷ sends lasting ∷ gets accepting ∷ gets (once false 1) ∷ sends (Puback 1 0) ∷ sends (leaving_by 0) ∷ []) ≡ 6 ∷ 5 ∷ [] }
    ensures code_of_server { applying server_asked V06 (Open ∷ gets lasting ∷ sends accepting ∷ gets (once false 1) ∷ sends (Puback 1 0) ∷ sends (leaving_by 0) ∷ []) ≡ 6 ∷ [] }
{}
