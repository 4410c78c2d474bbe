//! Short logs judged by the definitions alone: for each statement, and each end that it binds, a
//! log that breaks it, with all positions where it does, and the nearest one that keeps it. Last,
//! for each family an end that a statement doesn't bind.
ghost use Rattle.std.specs.Prelude.{◌≡◌, ◌∷◌, [], true, false, Some, None};
ghost use Rattle.mq_packet.specs.declared.packet.Qos.TheVariants as quality;
ghost use Rattle.mq_packet.specs.declared.rule.PacketRule.TheVariants as packets;
ghost use Rattle.mq_rules.specs.declared.rule.Rule.TheVariants.{W01, W02, W03, W04, W05, W06, W07, W08, W09, W10, W11, W12, W13, W14, W15, W16, W17, W18, W19, W20, W21, C01, C02, C03, C04, C05, C06, C07, C08, C09, C10, C11, C12, C13, C14, C15, C16, C17, C18, C19, C20, C21, C22, C23, S01, S02, S03, S04, S05, S06, S07, E1A, E1R, E1O, E2A, E2R, E2O, E3A, E3R, E3O, E4A, E4R, E5A, E5R, E6A, E6R, E7R, L1, L2, L3, B01, B02, B03, B04, B05, B06, B07, F01, F02, F03, F04, F05, F06, V03, V04, V06, C24, D01, D02, D03, D05, A01, A02, A03};
ghost use Rattle.mq_rules.specs.declared.note.Note.TheVariants.{Open, Rest, Release};
ghost use Rattle.mq_rules.specs.declared.packet_note.PacketFields.TheVariants.{Puback, Pubrec, Pubrel, Pubcomp, Suback, Unsuback, Pingreq, Pingresp};
ghost use Rattle.mq_rules.specs.Worked.{client, client_unrecorded, server, failing, Close, Cut, sends, gets, sends_sized, sends_explained, sends_bad, gets_bad, sends_lost, gets_lost, lasting, again, fleeting, unnamed, asking, connack_with, accepting, resuming, refusing, limiting, retaining, assigning, informing, leaving, at_most_once, once, exactly, retained_once, retained_exactly, expiring, aliased, subscribed, asks_a, asks_b, asks_both, asks_twice, removes_a, removes_b, removes_both, removes_twice, asking_again, client_asked, server_asked, with_will, with_method, announcing, naming_method, naming_other, auth_alone, auth_by, one_method, other_method, lacking, leaving_by, retained_at_most_once, retained_again, asks_plainly, asks_widely, asks_identified, asks_to_share, asks_misnamed, asks_no_local};

/// Bytes of a client that break a rule, and those that it receives (W01 to W21).
pub fn bytes_of_a_client()
    ensures w01 { failing client W01 (Open ∷ sends lasting ∷ gets accepting ∷ sends_bad 48 packets.W01 ∷ gets_bad 48 packets.W01 ∷ sends_bad 48 packets.W02 ∷ []) ≡ 4 ∷ [] }
    ensures w02 { failing client W02 (Open ∷ sends lasting ∷ gets accepting ∷ sends_bad 48 packets.W02 ∷ gets_bad 48 packets.W02 ∷ sends_bad 48 packets.W03 ∷ []) ≡ 4 ∷ [] }
    ensures w03 { failing client W03 (Open ∷ sends lasting ∷ gets accepting ∷ sends_bad 48 packets.W03 ∷ gets_bad 48 packets.W03 ∷ sends_bad 48 packets.W04 ∷ []) ≡ 4 ∷ [] }
    ensures w04 { failing client W04 (Open ∷ sends lasting ∷ gets accepting ∷ sends_bad 48 packets.W04 ∷ gets_bad 48 packets.W04 ∷ sends_bad 48 packets.W05 ∷ []) ≡ 4 ∷ [] }
    ensures w05 { failing client W05 (Open ∷ sends lasting ∷ gets accepting ∷ sends_bad 48 packets.W05 ∷ gets_bad 48 packets.W05 ∷ sends_bad 48 packets.W06 ∷ []) ≡ 4 ∷ [] }
    ensures w06 { failing client W06 (Open ∷ sends lasting ∷ gets accepting ∷ sends_bad 48 packets.W06 ∷ gets_bad 48 packets.W06 ∷ sends_bad 48 packets.W07 ∷ []) ≡ 4 ∷ [] }
    ensures w07 { failing client W07 (Open ∷ sends lasting ∷ gets accepting ∷ sends_bad 48 packets.W07 ∷ gets_bad 48 packets.W07 ∷ sends_bad 48 packets.W08 ∷ []) ≡ 4 ∷ [] }
    ensures w08 { failing client W08 (Open ∷ sends lasting ∷ gets accepting ∷ sends_bad 48 packets.W08 ∷ gets_bad 48 packets.W08 ∷ sends_bad 48 packets.W09 ∷ []) ≡ 4 ∷ [] }
    ensures w09 { failing client W09 (Open ∷ sends lasting ∷ gets accepting ∷ sends_bad 48 packets.W09 ∷ gets_bad 48 packets.W09 ∷ sends_bad 48 packets.W10 ∷ []) ≡ 4 ∷ [] }
    ensures w10 { failing client W10 (Open ∷ sends lasting ∷ gets accepting ∷ sends_bad 48 packets.W10 ∷ gets_bad 48 packets.W10 ∷ sends_bad 48 packets.W11 ∷ []) ≡ 4 ∷ [] }
    ensures w11 { failing client W11 (Open ∷ sends lasting ∷ gets accepting ∷ sends_bad 48 packets.W11 ∷ gets_bad 48 packets.W11 ∷ sends_bad 48 packets.W12 ∷ []) ≡ 4 ∷ [] }
    ensures w12 { failing client W12 (Open ∷ sends lasting ∷ gets accepting ∷ sends_bad 48 packets.W12 ∷ gets_bad 48 packets.W12 ∷ sends_bad 48 packets.W13 ∷ []) ≡ 4 ∷ [] }
    ensures w13 { failing client W13 (Open ∷ sends lasting ∷ gets accepting ∷ sends_bad 48 packets.W13 ∷ gets_bad 48 packets.W13 ∷ sends_bad 48 packets.W14 ∷ []) ≡ 4 ∷ [] }
    ensures w14 { failing client W14 (Open ∷ sends lasting ∷ gets accepting ∷ sends_bad 48 packets.W14 ∷ gets_bad 48 packets.W14 ∷ sends_bad 48 packets.W15 ∷ []) ≡ 4 ∷ [] }
    ensures w15 { failing client W15 (Open ∷ sends lasting ∷ gets accepting ∷ sends_bad 48 packets.W15 ∷ gets_bad 48 packets.W15 ∷ sends_bad 48 packets.W16 ∷ []) ≡ 4 ∷ [] }
    ensures w16 { failing client W16 (Open ∷ sends lasting ∷ gets accepting ∷ sends_bad 48 packets.W16 ∷ gets_bad 48 packets.W16 ∷ sends_bad 48 packets.W17 ∷ []) ≡ 4 ∷ [] }
    ensures w17 { failing client W17 (Open ∷ sends lasting ∷ gets accepting ∷ sends_bad 48 packets.W17 ∷ gets_bad 48 packets.W17 ∷ sends_bad 48 packets.W18 ∷ []) ≡ 4 ∷ [] }
    ensures w18 { failing client W18 (Open ∷ sends lasting ∷ gets accepting ∷ sends_bad 48 packets.W18 ∷ gets_bad 48 packets.W18 ∷ sends_bad 48 packets.W19 ∷ []) ≡ 4 ∷ [] }
    ensures w19 { failing client W19 (Open ∷ sends lasting ∷ gets accepting ∷ sends_bad 48 packets.W19 ∷ gets_bad 48 packets.W19 ∷ sends_bad 48 packets.W20 ∷ []) ≡ 4 ∷ [] }
    ensures w20 { failing client W20 (Open ∷ sends lasting ∷ gets accepting ∷ sends_bad 48 packets.W20 ∷ gets_bad 48 packets.W20 ∷ sends_bad 48 packets.W21 ∷ []) ≡ 4 ∷ [] }
    ensures w21 { failing client W21 (Open ∷ sends lasting ∷ gets accepting ∷ sends_bad 48 packets.W21 ∷ gets_bad 48 packets.W21 ∷ sends_bad 48 packets.W01 ∷ []) ≡ 4 ∷ [] }
    ensures lost { failing client W03 (Open ∷ sends lasting ∷ gets accepting ∷ sends_lost ∷ gets_lost ∷ []) ≡ 4 ∷ [] }
{}

/// Bytes of a server that break a rule, and those that it receives (W01 to W21).
pub fn bytes_of_a_server()
    ensures w01 { failing server W01 (Open ∷ gets lasting ∷ sends accepting ∷ sends_bad 48 packets.W01 ∷ gets_bad 48 packets.W01 ∷ sends_bad 48 packets.W02 ∷ []) ≡ 4 ∷ [] }
    ensures w02 { failing server W02 (Open ∷ gets lasting ∷ sends accepting ∷ sends_bad 48 packets.W02 ∷ gets_bad 48 packets.W02 ∷ sends_bad 48 packets.W03 ∷ []) ≡ 4 ∷ [] }
    ensures w03 { failing server W03 (Open ∷ gets lasting ∷ sends accepting ∷ sends_bad 48 packets.W03 ∷ gets_bad 48 packets.W03 ∷ sends_bad 48 packets.W04 ∷ []) ≡ 4 ∷ [] }
    ensures w04 { failing server W04 (Open ∷ gets lasting ∷ sends accepting ∷ sends_bad 48 packets.W04 ∷ gets_bad 48 packets.W04 ∷ sends_bad 48 packets.W05 ∷ []) ≡ 4 ∷ [] }
    ensures w05 { failing server W05 (Open ∷ gets lasting ∷ sends accepting ∷ sends_bad 48 packets.W05 ∷ gets_bad 48 packets.W05 ∷ sends_bad 48 packets.W06 ∷ []) ≡ 4 ∷ [] }
    ensures w06 { failing server W06 (Open ∷ gets lasting ∷ sends accepting ∷ sends_bad 48 packets.W06 ∷ gets_bad 48 packets.W06 ∷ sends_bad 48 packets.W07 ∷ []) ≡ 4 ∷ [] }
    ensures w07 { failing server W07 (Open ∷ gets lasting ∷ sends accepting ∷ sends_bad 48 packets.W07 ∷ gets_bad 48 packets.W07 ∷ sends_bad 48 packets.W08 ∷ []) ≡ 4 ∷ [] }
    ensures w08 { failing server W08 (Open ∷ gets lasting ∷ sends accepting ∷ sends_bad 48 packets.W08 ∷ gets_bad 48 packets.W08 ∷ sends_bad 48 packets.W09 ∷ []) ≡ 4 ∷ [] }
    ensures w09 { failing server W09 (Open ∷ gets lasting ∷ sends accepting ∷ sends_bad 48 packets.W09 ∷ gets_bad 48 packets.W09 ∷ sends_bad 48 packets.W10 ∷ []) ≡ 4 ∷ [] }
    ensures w10 { failing server W10 (Open ∷ gets lasting ∷ sends accepting ∷ sends_bad 48 packets.W10 ∷ gets_bad 48 packets.W10 ∷ sends_bad 48 packets.W11 ∷ []) ≡ 4 ∷ [] }
    ensures w11 { failing server W11 (Open ∷ gets lasting ∷ sends accepting ∷ sends_bad 48 packets.W11 ∷ gets_bad 48 packets.W11 ∷ sends_bad 48 packets.W12 ∷ []) ≡ 4 ∷ [] }
    ensures w12 { failing server W12 (Open ∷ gets lasting ∷ sends accepting ∷ sends_bad 48 packets.W12 ∷ gets_bad 48 packets.W12 ∷ sends_bad 48 packets.W13 ∷ []) ≡ 4 ∷ [] }
    ensures w13 { failing server W13 (Open ∷ gets lasting ∷ sends accepting ∷ sends_bad 48 packets.W13 ∷ gets_bad 48 packets.W13 ∷ sends_bad 48 packets.W14 ∷ []) ≡ 4 ∷ [] }
    ensures w14 { failing server W14 (Open ∷ gets lasting ∷ sends accepting ∷ sends_bad 48 packets.W14 ∷ gets_bad 48 packets.W14 ∷ sends_bad 48 packets.W15 ∷ []) ≡ 4 ∷ [] }
    ensures w15 { failing server W15 (Open ∷ gets lasting ∷ sends accepting ∷ sends_bad 48 packets.W15 ∷ gets_bad 48 packets.W15 ∷ sends_bad 48 packets.W16 ∷ []) ≡ 4 ∷ [] }
    ensures w16 { failing server W16 (Open ∷ gets lasting ∷ sends accepting ∷ sends_bad 48 packets.W16 ∷ gets_bad 48 packets.W16 ∷ sends_bad 48 packets.W17 ∷ []) ≡ 4 ∷ [] }
    ensures w17 { failing server W17 (Open ∷ gets lasting ∷ sends accepting ∷ sends_bad 48 packets.W17 ∷ gets_bad 48 packets.W17 ∷ sends_bad 48 packets.W18 ∷ []) ≡ 4 ∷ [] }
    ensures w18 { failing server W18 (Open ∷ gets lasting ∷ sends accepting ∷ sends_bad 48 packets.W18 ∷ gets_bad 48 packets.W18 ∷ sends_bad 48 packets.W19 ∷ []) ≡ 4 ∷ [] }
    ensures w19 { failing server W19 (Open ∷ gets lasting ∷ sends accepting ∷ sends_bad 48 packets.W19 ∷ gets_bad 48 packets.W19 ∷ sends_bad 48 packets.W20 ∷ []) ≡ 4 ∷ [] }
    ensures w20 { failing server W20 (Open ∷ gets lasting ∷ sends accepting ∷ sends_bad 48 packets.W20 ∷ gets_bad 48 packets.W20 ∷ sends_bad 48 packets.W21 ∷ []) ≡ 4 ∷ [] }
    ensures w21 { failing server W21 (Open ∷ gets lasting ∷ sends accepting ∷ sends_bad 48 packets.W21 ∷ gets_bad 48 packets.W21 ∷ sends_bad 48 packets.W01 ∷ []) ≡ 4 ∷ [] }
    ensures lost { failing server W03 (Open ∷ gets lasting ∷ sends accepting ∷ sends_lost ∷ gets_lost ∷ []) ≡ 4 ∷ [] }
{}

/// An end sends what only the other end may send (C01).
pub fn foreign_types()
    ensures client_breaks { failing client C01 (Open ∷ sends lasting ∷ gets accepting ∷ sends Pingresp ∷ []) ≡ 4 ∷ [] }
    ensures client_keeps { failing client C01 (Open ∷ sends lasting ∷ gets accepting ∷ sends Pingreq ∷ []) ≡ [] }
    ensures client_breaks_by_bytes { failing client C01 (Open ∷ sends lasting ∷ gets accepting ∷ sends_bad 144 packets.W09 ∷ []) ≡ 4 ∷ [] }
    ensures server_breaks { failing server C01 (Open ∷ gets lasting ∷ sends accepting ∷ sends Pingreq ∷ []) ≡ 4 ∷ [] }
    ensures server_keeps { failing server C01 (Open ∷ gets lasting ∷ sends accepting ∷ sends Pingresp ∷ []) ≡ [] }
{}

/// A client begins a connection by one CONNECT (C02 and C03).
pub fn connects()
    ensures first_breaks { failing client C02 (Open ∷ sends Pingreq ∷ sends lasting ∷ []) ≡ 2 ∷ [] }
    ensures first_keeps { failing client C02 (Open ∷ sends lasting ∷ sends Pingreq ∷ []) ≡ [] }
    ensures first_keeps_by_bytes { failing client C02 (Open ∷ sends_bad 16 packets.W19 ∷ sends Pingreq ∷ []) ≡ [] }
    ensures second_breaks { failing client C03 (Open ∷ sends lasting ∷ gets accepting ∷ sends lasting ∷ []) ≡ 4 ∷ [] }
    ensures second_keeps { failing client C03 (Open ∷ sends lasting ∷ gets accepting ∷ Close ∷ Open ∷ sends lasting ∷ []) ≡ [] }
{}

/// A server begins a connection by one CONNACK, after the CONNECT (C04 to C06).
pub fn connacks()
    ensures early_breaks { failing server C04 (Open ∷ sends accepting ∷ gets lasting ∷ []) ≡ 2 ∷ [] }
    ensures early_keeps { failing server C04 (Open ∷ gets lasting ∷ sends accepting ∷ []) ≡ [] }
    ensures first_breaks { failing server C05 (Open ∷ gets lasting ∷ sends Pingresp ∷ sends accepting ∷ []) ≡ 3 ∷ [] }
    ensures first_keeps { failing server C05 (Open ∷ gets lasting ∷ sends auth_alone ∷ sends accepting ∷ sends Pingresp ∷ []) ≡ [] }
    ensures second_breaks { failing server C06 (Open ∷ gets lasting ∷ sends accepting ∷ sends accepting ∷ []) ≡ 4 ∷ [] }
    ensures second_keeps { failing server C06 (Open ∷ gets lasting ∷ sends accepting ∷ Close ∷ Open ∷ gets lasting ∷ sends accepting ∷ []) ≡ [] }
{}

/// A server resumes a session (C07 to C09).
pub fn resumptions()
    ensures clean_breaks { failing server C07 (Open ∷ gets lasting ∷ sends accepting ∷ Close ∷ Open ∷ gets lasting ∷ sends resuming ∷ []) ≡ 7 ∷ [] }
    ensures clean_keeps { failing server C07 (Open ∷ gets lasting ∷ sends accepting ∷ Close ∷ Open ∷ gets again ∷ sends resuming ∷ []) ≡ [] }
    ensures alive_breaks { failing server C08 (Open ∷ gets fleeting ∷ sends accepting ∷ Close ∷ Open ∷ gets again ∷ sends resuming ∷ []) ≡ 7 ∷ [] }
    ensures alive_keeps { failing server C08 (Open ∷ gets lasting ∷ sends accepting ∷ Close ∷ Open ∷ gets again ∷ sends resuming ∷ []) ≡ [] }
    ensures alive_keeps_unanswered { failing server C08 (Open ∷ gets lasting ∷ Close ∷ Open ∷ gets again ∷ sends resuming ∷ []) ≡ [] }
    ensures alive_breaks_refused { failing server C08 (Open ∷ gets lasting ∷ sends refusing ∷ Close ∷ Open ∷ gets again ∷ sends resuming ∷ []) ≡ 7 ∷ [] }
    ensures alive_breaks_disconnected { failing server C08 (Open ∷ gets lasting ∷ sends accepting ∷ gets (leaving (Some 0)) ∷ Close ∷ Open ∷ gets again ∷ sends resuming ∷ []) ≡ 8 ∷ [] }
    ensures refusal_breaks { failing server C09 (Open ∷ gets again ∷ sends (connack_with true 135) ∷ []) ≡ 3 ∷ [] }
    ensures refusal_keeps { failing server C09 (Open ∷ gets again ∷ sends refusing ∷ []) ≡ [] }
{}

/// What a server puts into its CONNACK and explains (C10, C21 and C22).
pub fn answers_to_connect()
    ensures unnamed_breaks { failing server C10 (Open ∷ gets unnamed ∷ sends accepting ∷ []) ≡ 3 ∷ [] }
    ensures unnamed_keeps { failing server C10 (Open ∷ gets unnamed ∷ sends assigning ∷ []) ≡ [] }
    ensures explained_breaks { failing server C21 (Open ∷ gets (asking (Some 0) None None None None) ∷ sends accepting ∷ sends_explained auth_alone ∷ []) ≡ 4 ∷ [] }
    ensures explained_keeps { failing server C21 (Open ∷ gets (asking (Some 1) None None None None) ∷ sends accepting ∷ sends_explained auth_alone ∷ []) ≡ [] }
    ensures explained_keeps_disconnect { failing server C21 (Open ∷ gets (asking (Some 0) None None None None) ∷ sends_explained accepting ∷ sends_explained (leaving None) ∷ []) ≡ [] }
    ensures informed_breaks { failing server C22 (Open ∷ gets lasting ∷ sends informing ∷ []) ≡ 3 ∷ [] }
    ensures informed_keeps { failing server C22 (Open ∷ gets (asking None (Some 1) None None None) ∷ sends informing ∷ []) ≡ [] }
{}

/// What an end does after its last packet (C11, C12 and C23).
pub fn ended_connections()
    ensures client_breaks { failing client C11 (Open ∷ sends lasting ∷ gets accepting ∷ sends (leaving None) ∷ sends Pingreq ∷ []) ≡ 5 ∷ [] }
    ensures client_keeps { failing client C11 (Open ∷ sends lasting ∷ gets accepting ∷ sends Pingreq ∷ sends (leaving None) ∷ []) ≡ [] }
    ensures client_keeps_received { failing client C11 (Open ∷ sends lasting ∷ gets accepting ∷ gets (leaving None) ∷ sends Pingreq ∷ []) ≡ [] }
    ensures server_breaks { failing server C11 (Open ∷ gets lasting ∷ sends accepting ∷ sends (leaving None) ∷ sends Pingresp ∷ []) ≡ 5 ∷ [] }
    ensures server_keeps { failing server C11 (Open ∷ gets lasting ∷ sends accepting ∷ sends Pingresp ∷ sends (leaving None) ∷ []) ≡ [] }
    ensures refused_breaks { failing server C12 (Open ∷ gets lasting ∷ sends refusing ∷ sends Pingresp ∷ []) ≡ 4 ∷ [] }
    ensures refused_keeps { failing server C12 (Open ∷ gets lasting ∷ sends accepting ∷ sends Pingresp ∷ []) ≡ [] }
    ensures client_rests { failing client C23 (Open ∷ sends lasting ∷ gets accepting ∷ sends (leaving None) ∷ Rest ∷ []) ≡ 5 ∷ [] }
    ensures client_rests_before { failing client C23 (Open ∷ sends lasting ∷ gets accepting ∷ Rest ∷ sends (leaving None) ∷ []) ≡ [] }
    ensures server_rests { failing server C23 (Open ∷ gets lasting ∷ sends refusing ∷ Rest ∷ []) ≡ 4 ∷ [] }
    ensures server_rests_before { failing server C23 (Open ∷ gets lasting ∷ sends accepting ∷ Rest ∷ sends (leaving None) ∷ []) ≡ [] }
{}

/// A client continues a session that it doesn't have (C13).
pub fn unknown_sessions()
    ensures breaks { failing client C13 (Open ∷ sends lasting ∷ gets resuming ∷ sends Pingreq ∷ []) ≡ 4 ∷ [] }
    ensures keeps { failing client C13 (Open ∷ sends lasting ∷ gets resuming ∷ sends (leaving None) ∷ []) ≡ [] }
    ensures clean_breaks { failing client C13 (Open ∷ sends lasting ∷ gets accepting ∷ Close ∷ Open ∷ sends lasting ∷ gets resuming ∷ sends Pingreq ∷ []) ≡ 8 ∷ [] }
    ensures keeps_alive { failing client C13 (Open ∷ sends lasting ∷ gets accepting ∷ Close ∷ Open ∷ sends again ∷ gets resuming ∷ sends Pingreq ∷ []) ≡ [] }
    ensures ended_breaks { failing client C13 (Open ∷ sends fleeting ∷ gets accepting ∷ Close ∷ Open ∷ sends again ∷ gets resuming ∷ sends Pingreq ∷ []) ≡ 8 ∷ [] }
    ensures keeps_unanswered { failing client C13 (Open ∷ sends lasting ∷ Close ∷ Open ∷ sends again ∷ gets resuming ∷ sends Pingreq ∷ []) ≡ [] }
{}

/// What the peer lets an end send (C14, C15 and C17).
pub fn peer_limits()
    ensures client_size_breaks { failing client C14 (Open ∷ sends lasting ∷ gets (limiting false None None None (Some 10)) ∷ sends_sized 11 at_most_once ∷ []) ≡ 4 ∷ [] }
    ensures client_size_keeps { failing client C14 (Open ∷ sends lasting ∷ gets (limiting false None None None (Some 10)) ∷ sends_sized 10 at_most_once ∷ []) ≡ [] }
    ensures server_size_breaks { failing server C14 (Open ∷ gets (asking None None None None (Some 10)) ∷ sends accepting ∷ sends_sized 11 at_most_once ∷ []) ≡ 4 ∷ [] }
    ensures server_size_keeps { failing server C14 (Open ∷ gets (asking None None None None (Some 10)) ∷ sends accepting ∷ sends_sized 10 at_most_once ∷ []) ≡ [] }
    ensures client_alias_breaks { failing client C15 (Open ∷ sends lasting ∷ gets (limiting false None (Some 5) None None) ∷ sends (aliased (97 ∷ []) 6) ∷ []) ≡ 4 ∷ [] }
    ensures client_alias_keeps { failing client C15 (Open ∷ sends lasting ∷ gets (limiting false None (Some 5) None None) ∷ sends (aliased (97 ∷ []) 5) ∷ []) ≡ [] }
    ensures server_alias_breaks { failing server C15 (Open ∷ gets (asking None None None (Some 5) None) ∷ sends accepting ∷ sends (aliased (97 ∷ []) 6) ∷ []) ≡ 4 ∷ [] }
    ensures server_alias_keeps { failing server C15 (Open ∷ gets (asking None None None (Some 5) None) ∷ sends accepting ∷ sends (aliased (97 ∷ []) 5) ∷ []) ≡ [] }
    ensures qos_breaks { failing client C17 (Open ∷ sends lasting ∷ gets (limiting false None None (Some 1) None) ∷ sends (exactly false 1) ∷ []) ≡ 4 ∷ [] }
    ensures qos_keeps { failing client C17 (Open ∷ sends lasting ∷ gets (limiting false None None (Some 1) None) ∷ sends (once false 1) ∷ []) ≡ [] }
{}

/// An end sends a Topic Alias that has no topic (C16).
pub fn aliases()
    ensures client_breaks { failing client C16 (Open ∷ sends lasting ∷ gets accepting ∷ sends (aliased [] 1) ∷ []) ≡ 4 ∷ [] }
    ensures client_keeps { failing client C16 (Open ∷ sends lasting ∷ gets accepting ∷ sends (aliased (97 ∷ []) 1) ∷ sends (aliased [] 1) ∷ []) ≡ [] }
    ensures client_breaks_anew { failing client C16 (Open ∷ sends (aliased (97 ∷ []) 1) ∷ Close ∷ Open ∷ sends (aliased [] 1) ∷ []) ≡ 5 ∷ [] }
    ensures server_breaks { failing server C16 (Open ∷ gets lasting ∷ sends accepting ∷ sends (aliased (97 ∷ []) 2) ∷ sends (aliased [] 1) ∷ []) ≡ 5 ∷ [] }
    ensures server_keeps { failing server C16 (Open ∷ gets lasting ∷ sends accepting ∷ sends (aliased (97 ∷ []) 1) ∷ sends (aliased [] 1) ∷ []) ≡ [] }
{}

/// Properties that an end may not send (C18 to C20).
pub fn properties()
    ensures subscription_breaks { failing client C18 (Open ∷ sends lasting ∷ gets accepting ∷ sends subscribed ∷ []) ≡ 4 ∷ [] }
    ensures subscription_keeps { failing client C18 (Open ∷ sends lasting ∷ gets accepting ∷ sends at_most_once ∷ []) ≡ [] }
    ensures server_expiry_breaks { failing server C19 (Open ∷ gets lasting ∷ sends accepting ∷ sends (leaving (Some 0)) ∷ []) ≡ 4 ∷ [] }
    ensures server_expiry_keeps { failing server C19 (Open ∷ gets lasting ∷ sends accepting ∷ sends (leaving None) ∷ []) ≡ [] }
    ensures client_expiry_breaks { failing client C20 (Open ∷ sends fleeting ∷ gets accepting ∷ sends (leaving (Some 60)) ∷ []) ≡ 4 ∷ [] }
    ensures client_expiry_keeps { failing client C20 (Open ∷ sends lasting ∷ gets accepting ∷ sends (leaving (Some 60)) ∷ []) ≡ [] }
    ensures client_expiry_keeps_ending { failing client C20 (Open ∷ sends fleeting ∷ gets accepting ∷ sends (leaving (Some 0)) ∷ []) ≡ [] }
{}

/// An end takes a Packet Identifier that is in use (S01).
pub fn identifiers_in_use()
    ensures client_breaks { failing client S01 (Open ∷ sends lasting ∷ gets accepting ∷ sends (once false 1) ∷ sends (once false 1) ∷ []) ≡ 5 ∷ [] }
    ensures client_keeps { failing client S01 (Open ∷ sends lasting ∷ gets accepting ∷ sends (once false 1) ∷ gets (Puback 1 0) ∷ sends (once false 1) ∷ []) ≡ [] }
    ensures client_breaks_pubrec { failing client S01 (Open ∷ sends lasting ∷ gets accepting ∷ sends (exactly false 1) ∷ gets (Pubrec 1 0) ∷ sends (exactly false 1) ∷ []) ≡ 6 ∷ [] }
    ensures client_keeps_refused { failing client S01 (Open ∷ sends lasting ∷ gets accepting ∷ sends (exactly false 1) ∷ gets (Pubrec 1 128) ∷ sends (exactly false 1) ∷ []) ≡ [] }
    ensures client_breaks_resumed { failing client S01 (Open ∷ sends lasting ∷ gets accepting ∷ sends (once false 1) ∷ Close ∷ Open ∷ sends again ∷ gets resuming ∷ sends (once false 1) ∷ []) ≡ 9 ∷ [] }
    ensures client_keeps_anew { failing client S01 (Open ∷ sends lasting ∷ gets accepting ∷ sends (once false 1) ∷ Close ∷ Open ∷ sends again ∷ gets accepting ∷ sends (once false 1) ∷ []) ≡ [] }
    ensures client_subscribes_breaks { failing client S01 (Open ∷ sends lasting ∷ gets accepting ∷ sends (asks_a 1 0) ∷ sends (asks_a 1 0) ∷ []) ≡ 5 ∷ [] }
    ensures client_subscribes_keeps { failing client S01 (Open ∷ sends lasting ∷ gets accepting ∷ sends (asks_a 1 0) ∷ gets (Suback 1 []) ∷ sends (asks_a 1 0) ∷ []) ≡ [] }
    ensures client_breaks_void_closer { failing client S01 (Open ∷ sends lasting ∷ gets accepting ∷ sends (once false 1) ∷ Close ∷ Open ∷ sends again ∷ gets refusing ∷ gets (Puback 1 0) ∷ Close ∷ Open ∷ sends again ∷ gets resuming ∷ sends (once false 1) ∷ []) ≡ 14 ∷ [] }
    ensures client_keeps_passed_over { failing client S01 (Open ∷ sends lasting ∷ gets accepting ∷ sends (once false 1) ∷ Close ∷ Open ∷ sends again ∷ gets (limiting true None None None (Some 9)) ∷ sends (once false 1) ∷ []) ≡ [] }
    ensures client_breaks_sent_again { failing client S01 (Open ∷ sends lasting ∷ gets accepting ∷ sends (once false 1) ∷ Close ∷ Open ∷ sends again ∷ gets (limiting true None None None (Some 9)) ∷ sends (once true 1) ∷ sends (once false 1) ∷ []) ≡ 10 ∷ [] }
    ensures client_breaks_early { failing client S01 (Open ∷ sends lasting ∷ gets accepting ∷ sends (once false 1) ∷ Close ∷ Open ∷ sends again ∷ sends (once false 1) ∷ gets (limiting true None None None (Some 9)) ∷ []) ≡ 8 ∷ [] }
    ensures client_breaks_confirmed { failing client S01 (Open ∷ sends lasting ∷ gets accepting ∷ sends (exactly false 1) ∷ gets (Pubrec 1 0) ∷ Close ∷ Open ∷ sends again ∷ gets (limiting true None None (Some 1) None) ∷ sends (exactly false 1) ∷ []) ≡ 10 ∷ [] }
    ensures server_keeps_passed_over { failing server S01 (Open ∷ gets lasting ∷ sends accepting ∷ sends (once false 1) ∷ Close ∷ Open ∷ gets (asking_again (Some 9)) ∷ sends resuming ∷ Close ∷ Open ∷ gets again ∷ sends resuming ∷ sends (once false 1) ∷ []) ≡ [] }
    ensures server_breaks_unbounded { failing server S01 (Open ∷ gets lasting ∷ sends accepting ∷ sends (once false 1) ∷ Close ∷ Open ∷ gets (asking_again None) ∷ sends resuming ∷ Close ∷ Open ∷ gets again ∷ sends resuming ∷ sends (once false 1) ∷ []) ≡ 13 ∷ [] }
    ensures server_breaks { failing server S01 (Open ∷ gets lasting ∷ sends accepting ∷ sends (once false 1) ∷ sends (once false 1) ∷ []) ≡ 5 ∷ [] }
    ensures server_keeps { failing server S01 (Open ∷ gets lasting ∷ sends accepting ∷ sends (once false 1) ∷ gets (Puback 1 0) ∷ sends (once false 1) ∷ []) ≡ [] }
{}

/// What an end sends again (S02 to S05).
pub fn resends()
    ensures unknown_breaks { failing client S02 (Open ∷ sends lasting ∷ gets accepting ∷ sends (once false 1) ∷ Close ∷ Open ∷ sends again ∷ gets accepting ∷ sends (once true 1) ∷ []) ≡ 9 ∷ [] }
    ensures unknown_keeps { failing client S02 (Open ∷ sends lasting ∷ gets accepting ∷ sends (once false 1) ∷ Close ∷ Open ∷ sends again ∷ gets resuming ∷ sends (once true 1) ∷ []) ≡ [] }
    ensures void_keeps { failing client S02 (Open ∷ sends lasting ∷ gets refusing ∷ sends (once false 1) ∷ Close ∷ Open ∷ sends again ∷ gets accepting ∷ sends (once true 1) ∷ []) ≡ [] }
    ensures cut_keeps { failing client S02 (Open ∷ sends lasting ∷ gets accepting ∷ Cut ∷ Open ∷ sends again ∷ gets resuming ∷ sends (once true 1) ∷ []) ≡ [] }
    ensures uncut_breaks { failing client S02 (Open ∷ sends lasting ∷ gets accepting ∷ Close ∷ Open ∷ sends again ∷ gets resuming ∷ sends (once true 1) ∷ []) ≡ 8 ∷ [] }
    ensures cut_breaks_new { failing client S02 (Open ∷ sends lasting ∷ gets accepting ∷ Cut ∷ Open ∷ sends lasting ∷ gets accepting ∷ sends (once true 1) ∷ []) ≡ 8 ∷ [] }
    ensures cut_keeps_void { failing client S02 (Open ∷ sends lasting ∷ gets refusing ∷ Cut ∷ Open ∷ sends lasting ∷ gets accepting ∷ sends (once true 1) ∷ []) ≡ [] }
    ensures early_keeps { failing client S02 (Open ∷ sends lasting ∷ gets accepting ∷ sends (once false 1) ∷ Close ∷ Open ∷ sends again ∷ sends (once true 1) ∷ gets accepting ∷ sends Pingreq ∷ Close ∷ Open ∷ sends again ∷ gets resuming ∷ sends (once true 1) ∷ []) ≡ [] }
    ensures early_breaks_other { failing client S02 (Open ∷ sends lasting ∷ gets accepting ∷ sends (once false 1) ∷ Close ∷ Open ∷ sends again ∷ sends (once true 1) ∷ gets accepting ∷ sends Pingreq ∷ Close ∷ Open ∷ sends again ∷ gets resuming ∷ sends (once true 2) ∷ []) ≡ 15 ∷ [] }
    ensures early_breaks_same { failing client S02 (Open ∷ sends lasting ∷ gets accepting ∷ sends (once false 1) ∷ Close ∷ Open ∷ sends again ∷ sends (once true 1) ∷ gets accepting ∷ sends (once true 1) ∷ []) ≡ 10 ∷ [] }
    ensures server_cut_keeps { failing server S02 (Open ∷ gets lasting ∷ sends accepting ∷ Cut ∷ Open ∷ gets again ∷ sends resuming ∷ sends (once true 1) ∷ []) ≡ [] }
    ensures server_early_breaks { failing server S02 (Open ∷ gets lasting ∷ sends (once true 1) ∷ sends accepting ∷ Close ∷ Open ∷ gets again ∷ sends resuming ∷ sends (once true 1) ∷ []) ≡ 9 ∷ 3 ∷ [] }
    ensures server_unknown_breaks { failing server S02 (Open ∷ gets lasting ∷ sends accepting ∷ sends (once true 1) ∷ []) ≡ 4 ∷ [] }
    ensures server_unknown_keeps { failing server S02 (Open ∷ gets lasting ∷ sends accepting ∷ sends (once false 1) ∷ Close ∷ Open ∷ gets again ∷ sends resuming ∷ sends (once true 1) ∷ []) ≡ [] }
    ensures same_breaks { failing client S03 (Open ∷ sends lasting ∷ gets accepting ∷ sends (once false 1) ∷ sends (once true 1) ∷ []) ≡ 5 ∷ [] }
    ensures same_keeps { failing client S03 (Open ∷ sends lasting ∷ gets accepting ∷ sends (once false 1) ∷ Close ∷ Open ∷ sends again ∷ gets resuming ∷ sends (once true 1) ∷ []) ≡ [] }
    ensures server_same_breaks { failing server S03 (Open ∷ gets lasting ∷ sends accepting ∷ sends (once false 1) ∷ sends (once true 1) ∷ []) ≡ 5 ∷ [] }
    ensures server_same_keeps { failing server S03 (Open ∷ gets lasting ∷ sends accepting ∷ sends (once false 1) ∷ Close ∷ Open ∷ gets again ∷ sends resuming ∷ sends (once true 1) ∷ []) ≡ [] }
    ensures released_breaks { failing client S04 (Open ∷ sends lasting ∷ gets accepting ∷ sends (exactly false 1) ∷ gets (Pubrec 1 0) ∷ sends (Pubrel 1 0) ∷ Close ∷ Open ∷ sends again ∷ gets resuming ∷ sends (exactly true 1) ∷ []) ≡ 11 ∷ [] }
    ensures released_keeps { failing client S04 (Open ∷ sends lasting ∷ gets accepting ∷ sends (exactly false 1) ∷ gets (Pubrec 1 0) ∷ Close ∷ Open ∷ sends again ∷ gets resuming ∷ sends (exactly true 1) ∷ []) ≡ [] }
    ensures server_released_breaks { failing server S04 (Open ∷ gets lasting ∷ sends accepting ∷ sends (exactly false 1) ∷ gets (Pubrec 1 0) ∷ sends (Pubrel 1 0) ∷ Close ∷ Open ∷ gets again ∷ sends resuming ∷ sends (exactly true 1) ∷ []) ≡ 11 ∷ [] }
    ensures server_released_keeps { failing server S04 (Open ∷ gets lasting ∷ sends accepting ∷ sends (exactly false 1) ∷ gets (Pubrec 1 0) ∷ Close ∷ Open ∷ gets again ∷ sends resuming ∷ sends (exactly true 1) ∷ []) ≡ [] }
    ensures order_breaks { failing client S05 (Open ∷ sends lasting ∷ gets accepting ∷ sends (once false 1) ∷ sends (once false 2) ∷ Close ∷ Open ∷ sends again ∷ gets resuming ∷ sends (once true 2) ∷ sends (once true 1) ∷ []) ≡ 11 ∷ [] }
    ensures order_keeps { failing client S05 (Open ∷ sends lasting ∷ gets accepting ∷ sends (once false 1) ∷ sends (once false 2) ∷ Close ∷ Open ∷ sends again ∷ gets resuming ∷ sends (once true 1) ∷ sends (once true 2) ∷ []) ≡ [] }
{}

/// What an end owes a session that is resumed (S06).
pub fn redelivery()
    ensures breaks { failing client S06 (Open ∷ sends lasting ∷ gets accepting ∷ sends (once false 1) ∷ Close ∷ Open ∷ sends again ∷ gets resuming ∷ Rest ∷ []) ≡ 4 ∷ [] }
    ensures keeps { failing client S06 (Open ∷ sends lasting ∷ gets accepting ∷ sends (once false 1) ∷ Close ∷ Open ∷ sends again ∷ gets resuming ∷ sends (once true 1) ∷ Rest ∷ []) ≡ [] }
    ensures keeps_announced { failing client S06 (Open ∷ sends lasting ∷ gets accepting ∷ sends (once false 1) ∷ Close ∷ Open ∷ sends again ∷ gets (limiting true None None (Some 1) None) ∷ Rest ∷ []) ≡ [] }
    ensures keeps_retained { failing client S06 (Open ∷ sends lasting ∷ gets accepting ∷ sends (retained_once 1) ∷ Close ∷ Open ∷ sends again ∷ gets (retaining (Some 0)) ∷ Rest ∷ []) ≡ [] }
    ensures breaks_retaining { failing client S06 (Open ∷ sends lasting ∷ gets accepting ∷ sends (retained_once 1) ∷ Close ∷ Open ∷ sends again ∷ gets (retaining (Some 1)) ∷ Rest ∷ []) ≡ 4 ∷ [] }
    ensures breaks_unretained { failing client S06 (Open ∷ sends lasting ∷ gets accepting ∷ sends (once false 1) ∷ Close ∷ Open ∷ sends again ∷ gets (retaining (Some 0)) ∷ Rest ∷ []) ≡ 4 ∷ [] }
    ensures breaks_confirmed { failing client S06 (Open ∷ sends lasting ∷ gets accepting ∷ sends (retained_exactly 1) ∷ gets (Pubrec 1 0) ∷ Close ∷ Open ∷ sends again ∷ gets (retaining (Some 0)) ∷ Rest ∷ []) ≡ 4 ∷ [] }
    ensures keeps_waiting { failing client S06 (Open ∷ sends lasting ∷ gets accepting ∷ sends (once false 1) ∷ sends (once false 2) ∷ Close ∷ Open ∷ sends again ∷ gets resuming ∷ sends (once true 1) ∷ Rest ∷ []) ≡ [] }
    ensures keeps_released { failing client S06 (Open ∷ sends lasting ∷ gets accepting ∷ sends (once false 1) ∷ Close ∷ Open ∷ sends again ∷ gets resuming ∷ sends (Pubrel 2 0) ∷ Rest ∷ []) ≡ [] }
    ensures breaks_answered { failing client S06 (Open ∷ sends lasting ∷ gets accepting ∷ sends (once false 1) ∷ sends (once false 2) ∷ Close ∷ Open ∷ sends again ∷ gets resuming ∷ sends (once true 1) ∷ gets (Puback 1 0) ∷ Rest ∷ []) ≡ 5 ∷ [] }
    ensures breaks_asked_before { failing client S06 (Open ∷ sends lasting ∷ gets accepting ∷ sends (once false 1) ∷ Close ∷ Open ∷ sends again ∷ gets resuming ∷ sends (asks_a 2 0) ∷ Rest ∷ []) ≡ 4 ∷ [] }
    ensures server_keeps_early { failing server S06 (Open ∷ gets lasting ∷ sends accepting ∷ sends (once false 1) ∷ Close ∷ Open ∷ gets again ∷ sends (once false 2) ∷ sends resuming ∷ Rest ∷ []) ≡ [] }
    ensures server_keeps_passed_over { failing server S06 (Open ∷ gets lasting ∷ sends accepting ∷ sends (once false 1) ∷ Close ∷ Open ∷ gets (asking_again (Some 9)) ∷ sends resuming ∷ Close ∷ Open ∷ gets again ∷ sends resuming ∷ Rest ∷ []) ≡ [] }
    ensures server_breaks_sent_again { failing server S06 (Open ∷ gets lasting ∷ sends accepting ∷ sends (once false 1) ∷ Close ∷ Open ∷ gets (asking_again (Some 9)) ∷ sends resuming ∷ sends (once true 1) ∷ Close ∷ Open ∷ gets again ∷ sends resuming ∷ Rest ∷ []) ≡ 4 ∷ [] }
    ensures server_breaks { failing server S06 (Open ∷ gets lasting ∷ sends accepting ∷ sends (once false 1) ∷ Close ∷ Open ∷ gets again ∷ sends resuming ∷ Rest ∷ []) ≡ 4 ∷ [] }
    ensures server_keeps { failing server S06 (Open ∷ gets lasting ∷ sends accepting ∷ sends (once false 1) ∷ Close ∷ Open ∷ gets again ∷ sends resuming ∷ sends (once true 1) ∷ Rest ∷ []) ≡ [] }
{}

/// How many messages an end has unacknowledged (S07).
pub fn quotas()
    ensures breaks { failing client S07 (Open ∷ sends lasting ∷ gets (limiting false (Some 1) None None None) ∷ sends (once false 1) ∷ sends (once false 2) ∷ []) ≡ 5 ∷ [] }
    ensures keeps { failing client S07 (Open ∷ sends lasting ∷ gets (limiting false (Some 1) None None None) ∷ sends (once false 1) ∷ gets (Puback 1 0) ∷ sends (once false 2) ∷ []) ≡ [] }
    ensures cap_breaks { failing client S07 (Open ∷ sends lasting ∷ gets (limiting false (Some 1) None None None) ∷ gets (Pubcomp 9 0) ∷ sends (once false 1) ∷ sends (once false 2) ∷ []) ≡ 6 ∷ [] }
    ensures server_breaks { failing server S07 (Open ∷ gets (asking None None (Some 1) None None) ∷ sends accepting ∷ sends (once false 1) ∷ sends (once false 2) ∷ []) ≡ 5 ∷ [] }
    ensures server_keeps { failing server S07 (Open ∷ gets (asking None None (Some 1) None None) ∷ sends accepting ∷ sends (once false 1) ∷ gets (Puback 1 0) ∷ sends (once false 2) ∷ []) ≡ [] }
{}

/// PUBACKs and what they answer (E1A, E1R and E1O).
pub fn pubacks()
    ensures client_answer_breaks { failing client E1A (Open ∷ sends lasting ∷ gets accepting ∷ sends (Puback 1 0) ∷ []) ≡ 4 ∷ [] }
    ensures client_answer_keeps { failing client E1A (Open ∷ sends lasting ∷ gets accepting ∷ gets (once false 1) ∷ sends (Puback 1 0) ∷ []) ≡ [] }
    ensures client_owes { failing client E1R (Open ∷ sends lasting ∷ gets accepting ∷ gets (once false 1) ∷ Rest ∷ []) ≡ 4 ∷ [] }
    ensures client_paid { failing client E1R (Open ∷ sends lasting ∷ gets accepting ∷ gets (once false 1) ∷ sends (Puback 1 0) ∷ Rest ∷ []) ≡ [] }
    ensures server_answer_breaks { failing server E1A (Open ∷ gets lasting ∷ sends accepting ∷ sends (Puback 1 0) ∷ []) ≡ 4 ∷ [] }
    ensures server_answer_keeps { failing server E1A (Open ∷ gets lasting ∷ sends accepting ∷ gets (once false 1) ∷ sends (Puback 1 0) ∷ []) ≡ [] }
    ensures server_owes { failing server E1R (Open ∷ gets lasting ∷ sends accepting ∷ gets (once false 1) ∷ Rest ∷ []) ≡ 4 ∷ [] }
    ensures server_paid { failing server E1R (Open ∷ gets lasting ∷ sends accepting ∷ gets (once false 1) ∷ sends (Puback 1 0) ∷ Rest ∷ []) ≡ [] }
    ensures order_breaks { failing client E1O (Open ∷ sends lasting ∷ gets accepting ∷ gets (once false 1) ∷ gets (once false 2) ∷ sends (Puback 2 0) ∷ sends (Puback 1 0) ∷ []) ≡ 6 ∷ [] }
    ensures order_keeps { failing client E1O (Open ∷ sends lasting ∷ gets accepting ∷ gets (once false 1) ∷ gets (once false 2) ∷ sends (Puback 1 0) ∷ sends (Puback 2 0) ∷ []) ≡ [] }
{}

/// PUBRECs and what they answer (E2A, E2R and E2O).
pub fn pubrecs()
    ensures client_answer_breaks { failing client E2A (Open ∷ sends lasting ∷ gets accepting ∷ sends (Pubrec 1 0) ∷ []) ≡ 4 ∷ [] }
    ensures client_answer_keeps { failing client E2A (Open ∷ sends lasting ∷ gets accepting ∷ gets (exactly false 1) ∷ sends (Pubrec 1 0) ∷ []) ≡ [] }
    ensures client_owes { failing client E2R (Open ∷ sends lasting ∷ gets accepting ∷ gets (exactly false 1) ∷ Rest ∷ []) ≡ 4 ∷ [] }
    ensures client_paid { failing client E2R (Open ∷ sends lasting ∷ gets accepting ∷ gets (exactly false 1) ∷ sends (Pubrec 1 0) ∷ Rest ∷ []) ≡ [] }
    ensures server_answer_breaks { failing server E2A (Open ∷ gets lasting ∷ sends accepting ∷ sends (Pubrec 1 0) ∷ []) ≡ 4 ∷ [] }
    ensures server_answer_keeps { failing server E2A (Open ∷ gets lasting ∷ sends accepting ∷ gets (exactly false 1) ∷ sends (Pubrec 1 0) ∷ []) ≡ [] }
    ensures server_owes { failing server E2R (Open ∷ gets lasting ∷ sends accepting ∷ gets (exactly false 1) ∷ Rest ∷ []) ≡ 4 ∷ [] }
    ensures server_paid { failing server E2R (Open ∷ gets lasting ∷ sends accepting ∷ gets (exactly false 1) ∷ sends (Pubrec 1 0) ∷ Rest ∷ []) ≡ [] }
    ensures order_breaks { failing client E2O (Open ∷ sends lasting ∷ gets accepting ∷ gets (exactly false 1) ∷ gets (exactly false 2) ∷ sends (Pubrec 2 0) ∷ sends (Pubrec 1 0) ∷ []) ≡ 6 ∷ [] }
    ensures order_keeps { failing client E2O (Open ∷ sends lasting ∷ gets accepting ∷ gets (exactly false 1) ∷ gets (exactly false 2) ∷ sends (Pubrec 1 0) ∷ sends (Pubrec 2 0) ∷ []) ≡ [] }
{}

/// PUBRELs and what they answer (E3A, E3R and E3O).
pub fn pubrels()
    ensures client_answer_breaks { failing client E3A (Open ∷ sends lasting ∷ gets accepting ∷ sends (Pubrel 1 0) ∷ []) ≡ 4 ∷ [] }
    ensures client_answer_keeps { failing client E3A (Open ∷ sends lasting ∷ gets accepting ∷ gets (Pubrec 1 0) ∷ sends (Pubrel 1 0) ∷ []) ≡ [] }
    ensures client_owes { failing client E3R (Open ∷ sends lasting ∷ gets accepting ∷ gets (Pubrec 1 0) ∷ Rest ∷ []) ≡ 4 ∷ [] }
    ensures client_paid { failing client E3R (Open ∷ sends lasting ∷ gets accepting ∷ gets (Pubrec 1 0) ∷ sends (Pubrel 1 0) ∷ Rest ∷ []) ≡ [] }
    ensures server_answer_breaks { failing server E3A (Open ∷ gets lasting ∷ sends accepting ∷ sends (Pubrel 1 0) ∷ []) ≡ 4 ∷ [] }
    ensures server_answer_keeps { failing server E3A (Open ∷ gets lasting ∷ sends accepting ∷ gets (Pubrec 1 0) ∷ sends (Pubrel 1 0) ∷ []) ≡ [] }
    ensures server_owes { failing server E3R (Open ∷ gets lasting ∷ sends accepting ∷ gets (Pubrec 1 0) ∷ Rest ∷ []) ≡ 4 ∷ [] }
    ensures server_paid { failing server E3R (Open ∷ gets lasting ∷ sends accepting ∷ gets (Pubrec 1 0) ∷ sends (Pubrel 1 0) ∷ Rest ∷ []) ≡ [] }
    ensures order_breaks { failing client E3O (Open ∷ sends lasting ∷ gets accepting ∷ gets (Pubrec 1 0) ∷ gets (Pubrec 2 0) ∷ sends (Pubrel 2 0) ∷ sends (Pubrel 1 0) ∷ []) ≡ 6 ∷ [] }
    ensures order_keeps { failing client E3O (Open ∷ sends lasting ∷ gets accepting ∷ gets (Pubrec 1 0) ∷ gets (Pubrec 2 0) ∷ sends (Pubrel 1 0) ∷ sends (Pubrel 2 0) ∷ []) ≡ [] }
{}

/// PUBCOMPs and what they answer (E4A, E4R).
pub fn pubcomps()
    ensures client_answer_breaks { failing client E4A (Open ∷ sends lasting ∷ gets accepting ∷ sends (Pubcomp 1 0) ∷ []) ≡ 4 ∷ [] }
    ensures client_answer_keeps { failing client E4A (Open ∷ sends lasting ∷ gets accepting ∷ gets (Pubrel 1 0) ∷ sends (Pubcomp 1 0) ∷ []) ≡ [] }
    ensures client_owes { failing client E4R (Open ∷ sends lasting ∷ gets accepting ∷ gets (Pubrel 1 0) ∷ Rest ∷ []) ≡ 4 ∷ [] }
    ensures client_paid { failing client E4R (Open ∷ sends lasting ∷ gets accepting ∷ gets (Pubrel 1 0) ∷ sends (Pubcomp 1 0) ∷ Rest ∷ []) ≡ [] }
    ensures server_answer_breaks { failing server E4A (Open ∷ gets lasting ∷ sends accepting ∷ sends (Pubcomp 1 0) ∷ []) ≡ 4 ∷ [] }
    ensures server_answer_keeps { failing server E4A (Open ∷ gets lasting ∷ sends accepting ∷ gets (Pubrel 1 0) ∷ sends (Pubcomp 1 0) ∷ []) ≡ [] }
    ensures server_owes { failing server E4R (Open ∷ gets lasting ∷ sends accepting ∷ gets (Pubrel 1 0) ∷ Rest ∷ []) ≡ 4 ∷ [] }
    ensures server_paid { failing server E4R (Open ∷ gets lasting ∷ sends accepting ∷ gets (Pubrel 1 0) ∷ sends (Pubcomp 1 0) ∷ Rest ∷ []) ≡ [] }
{}

/// SUBACKs and what they answer (E5A, E5R).
pub fn subacks()
    ensures server_answer_breaks { failing server E5A (Open ∷ gets lasting ∷ sends accepting ∷ sends (Suback 1 []) ∷ []) ≡ 4 ∷ [] }
    ensures server_answer_keeps { failing server E5A (Open ∷ gets lasting ∷ sends accepting ∷ gets (asks_a 1 0) ∷ sends (Suback 1 []) ∷ []) ≡ [] }
    ensures server_owes { failing server E5R (Open ∷ gets lasting ∷ sends accepting ∷ gets (asks_a 1 0) ∷ Rest ∷ []) ≡ 4 ∷ [] }
    ensures server_paid { failing server E5R (Open ∷ gets lasting ∷ sends accepting ∷ gets (asks_a 1 0) ∷ sends (Suback 1 []) ∷ Rest ∷ []) ≡ [] }
{}

/// UNSUBACKs and what they answer (E6A, E6R).
pub fn unsubacks()
    ensures server_answer_breaks { failing server E6A (Open ∷ gets lasting ∷ sends accepting ∷ sends (Unsuback 1 (0 ∷ [])) ∷ []) ≡ 4 ∷ [] }
    ensures server_answer_keeps { failing server E6A (Open ∷ gets lasting ∷ sends accepting ∷ gets (removes_a 1) ∷ sends (Unsuback 1 (0 ∷ [])) ∷ []) ≡ [] }
    ensures server_owes { failing server E6R (Open ∷ gets lasting ∷ sends accepting ∷ gets (removes_a 1) ∷ Rest ∷ []) ≡ 4 ∷ [] }
    ensures server_paid { failing server E6R (Open ∷ gets lasting ∷ sends accepting ∷ gets (removes_a 1) ∷ sends (Unsuback 1 (0 ∷ [])) ∷ Rest ∷ []) ≡ [] }
{}

/// PINGRESPs and the PINGREQs that they answer (E7R).
pub fn pingresps()
    ensures breaks { failing server E7R (Open ∷ gets lasting ∷ sends accepting ∷ gets Pingreq ∷ Rest ∷ []) ≡ 5 ∷ [] }
    ensures keeps { failing server E7R (Open ∷ gets lasting ∷ sends accepting ∷ gets Pingreq ∷ sends Pingresp ∷ Rest ∷ []) ≡ [] }
{}

/// QoS 2 messages that an end releases (L1 to L3).
pub fn released_messages()
    ensures nothing_breaks { failing client L1 (Open ∷ sends lasting ∷ gets accepting ∷ Release 1 ∷ []) ≡ 4 ∷ [] }
    ensures nothing_keeps { failing client L1 (Open ∷ sends lasting ∷ gets accepting ∷ gets (exactly false 1) ∷ Release 1 ∷ []) ≡ [] }
    ensures between_keeps { failing client L1 (Open ∷ sends lasting ∷ gets accepting ∷ gets (exactly false 1) ∷ Close ∷ Release 1 ∷ []) ≡ [] }
    ensures before_breaks { failing client L1 (Release 1 ∷ Release 1 ∷ []) ≡ 2 ∷ 1 ∷ [] }
    ensures server_nothing_breaks { failing server L1 (Open ∷ gets lasting ∷ sends accepting ∷ Release 1 ∷ []) ≡ 4 ∷ [] }
    ensures server_nothing_keeps { failing server L1 (Open ∷ gets lasting ∷ sends accepting ∷ gets (exactly false 1) ∷ Release 1 ∷ []) ≡ [] }
    ensures twice_breaks { failing client L2 (Open ∷ sends lasting ∷ gets accepting ∷ gets (exactly false 1) ∷ Release 1 ∷ gets (exactly true 1) ∷ Release 1 ∷ []) ≡ 7 ∷ [] }
    ensures twice_keeps { failing client L2 (Open ∷ sends lasting ∷ gets accepting ∷ gets (exactly false 1) ∷ Release 1 ∷ gets (exactly true 1) ∷ []) ≡ [] }
    ensures before_keeps { failing client L2 (Release 1 ∷ Release 1 ∷ []) ≡ [] }
    ensures server_twice_breaks { failing server L2 (Open ∷ gets lasting ∷ sends accepting ∷ gets (exactly false 1) ∷ Release 1 ∷ Release 1 ∷ []) ≡ 6 ∷ [] }
    ensures server_twice_keeps { failing server L2 (Open ∷ gets lasting ∷ sends accepting ∷ gets (exactly false 1) ∷ Release 1 ∷ []) ≡ [] }
    ensures completed_breaks { failing client L3 (Open ∷ sends lasting ∷ gets accepting ∷ gets (exactly false 1) ∷ gets (Pubrel 1 0) ∷ sends (Pubcomp 1 0) ∷ []) ≡ 6 ∷ [] }
    ensures completed_keeps { failing client L3 (Open ∷ sends lasting ∷ gets accepting ∷ gets (exactly false 1) ∷ Release 1 ∷ sends (Pubcomp 1 0) ∷ []) ≡ [] }
    ensures expiring_keeps { failing client L3 (Open ∷ sends lasting ∷ gets accepting ∷ gets (expiring 1) ∷ gets (Pubrel 1 0) ∷ sends (Pubcomp 1 0) ∷ []) ≡ [] }
    ensures unmatched_keeps { failing client L3 (Open ∷ sends lasting ∷ gets accepting ∷ gets (exactly false 1) ∷ sends (Pubrec 1 16) ∷ sends (Pubcomp 1 0) ∷ []) ≡ [] }
    ensures server_completed_breaks { failing server L3 (Open ∷ gets lasting ∷ sends accepting ∷ gets (exactly false 1) ∷ gets (Pubrel 1 0) ∷ sends (Pubcomp 1 0) ∷ []) ≡ 6 ∷ [] }
    ensures server_completed_keeps { failing server L3 (Open ∷ gets lasting ∷ sends accepting ∷ gets (exactly false 1) ∷ gets (Pubrel 1 0) ∷ Release 1 ∷ sends (Pubcomp 1 0) ∷ []) ≡ [] }
{}

/// What a server sends to whom (B01 to B04).
pub fn subscriptions()
    ensures unasked_breaks { failing server B01 (Open ∷ gets lasting ∷ sends accepting ∷ gets (asks_b 1 0) ∷ sends at_most_once ∷ []) ≡ 5 ∷ [] }
    ensures unasked_keeps { failing server B01 (Open ∷ gets lasting ∷ sends accepting ∷ gets (asks_a 1 0) ∷ sends at_most_once ∷ []) ≡ [] }
    ensures refused_breaks { failing server B01 (Open ∷ gets lasting ∷ sends accepting ∷ gets (asks_a 1 0) ∷ sends (Suback 1 (135 ∷ [])) ∷ sends at_most_once ∷ []) ≡ 6 ∷ [] }
    ensures qos_breaks { failing server B02 (Open ∷ gets lasting ∷ sends accepting ∷ gets (asks_a 1 0) ∷ sends (once false 1) ∷ []) ≡ 5 ∷ [] }
    ensures qos_keeps { failing server B02 (Open ∷ gets lasting ∷ sends accepting ∷ gets (asks_a 1 1) ∷ sends (once false 1) ∷ []) ≡ [] }
    ensures granted_breaks { failing server B02 (Open ∷ gets lasting ∷ sends accepting ∷ gets (asks_a 1 1) ∷ sends (Suback 1 (0 ∷ [])) ∷ sends (once false 1) ∷ []) ≡ 6 ∷ [] }
    ensures suback_breaks { failing server B03 (Open ∷ gets lasting ∷ sends accepting ∷ gets (asks_a 1 0) ∷ sends (Suback 1 (0 ∷ 0 ∷ [])) ∷ []) ≡ 5 ∷ [] }
    ensures suback_keeps { failing server B03 (Open ∷ gets lasting ∷ sends accepting ∷ gets (asks_a 1 0) ∷ sends (Suback 1 (0 ∷ [])) ∷ []) ≡ [] }
    ensures unsuback_breaks { failing server B04 (Open ∷ gets lasting ∷ sends accepting ∷ gets (removes_a 1) ∷ sends (Unsuback 1 (0 ∷ 0 ∷ [])) ∷ []) ≡ 5 ∷ [] }
    ensures unsuback_keeps { failing server B04 (Open ∷ gets lasting ∷ sends accepting ∷ gets (removes_a 1) ∷ sends (Unsuback 1 (0 ∷ [])) ∷ []) ≡ [] }
{}

/// What a SUBACK grants (B05).
pub fn granted_qos()
    ensures above_breaks { failing server_asked B05 (Open ∷ gets lasting ∷ sends accepting ∷ gets (asks_a 1 0) ∷ sends (Suback 1 (1 ∷ [])) ∷ []) ≡ 5 ∷ [] }
    ensures equal_keeps { failing server_asked B05 (Open ∷ gets lasting ∷ sends accepting ∷ gets (asks_a 1 1) ∷ sends (Suback 1 (1 ∷ [])) ∷ []) ≡ [] }
    ensures less_keeps { failing server_asked B05 (Open ∷ gets lasting ∷ sends accepting ∷ gets (asks_a 1 2) ∷ sends (Suback 1 (1 ∷ [])) ∷ []) ≡ [] }
    ensures refused_keeps { failing server_asked B05 (Open ∷ gets lasting ∷ sends accepting ∷ gets (asks_a 1 0) ∷ sends (Suback 1 (128 ∷ [])) ∷ []) ≡ [] }
    ensures options_break { failing server_asked B05 (Open ∷ gets lasting ∷ sends accepting ∷ gets (asks_a 1 12) ∷ sends (Suback 1 (1 ∷ [])) ∷ []) ≡ 5 ∷ [] }
    ensures exchanged_breaks { failing server_asked B05 (Open ∷ gets lasting ∷ sends accepting ∷ gets (asks_both 1 0 2) ∷ sends (Suback 1 (2 ∷ 0 ∷ [])) ∷ []) ≡ 5 ∷ [] }
    ensures second_breaks { failing server_asked B05 (Open ∷ gets lasting ∷ sends accepting ∷ gets (asks_both 1 2 0) ∷ sends (Suback 1 (135 ∷ 1 ∷ [])) ∷ []) ≡ 5 ∷ [] }
    ensures in_order_keeps { failing server_asked B05 (Open ∷ gets lasting ∷ sends accepting ∷ gets (asks_both 1 0 2) ∷ sends (Suback 1 (0 ∷ 2 ∷ [])) ∷ []) ≡ [] }
    ensures many_codes_keep { failing server_asked B05 (Open ∷ gets lasting ∷ sends accepting ∷ gets (asks_a 1 1) ∷ sends (Suback 1 (1 ∷ 2 ∷ [])) ∷ []) ≡ [] }
    ensures few_codes_break { failing server_asked B05 (Open ∷ gets lasting ∷ sends accepting ∷ gets (asks_both 1 0 2) ∷ sends (Suback 1 (1 ∷ [])) ∷ []) ≡ 5 ∷ [] }
    ensures first_keeps { failing server_asked B05 (Open ∷ gets lasting ∷ sends accepting ∷ gets (asks_a 1 1) ∷ gets (asks_a 1 0) ∷ sends (Suback 1 (1 ∷ [])) ∷ []) ≡ [] }
    ensures answered_breaks { failing server_asked B05 (Open ∷ gets lasting ∷ sends accepting ∷ gets (asks_a 1 1) ∷ sends (Suback 1 (1 ∷ [])) ∷ gets (asks_a 1 0) ∷ sends (Suback 1 (1 ∷ [])) ∷ []) ≡ 7 ∷ [] }
    ensures unknown_keeps { failing server_asked B05 (Open ∷ gets lasting ∷ sends accepting ∷ gets (asks_a 1 0) ∷ sends (Suback 2 (1 ∷ [])) ∷ []) ≡ [] }
    ensures later_keeps { failing server_asked B05 (Open ∷ gets lasting ∷ sends accepting ∷ gets (asks_a 1 0) ∷ Close ∷ Open ∷ gets again ∷ sends resuming ∷ sends (Suback 1 (1 ∷ [])) ∷ []) ≡ [] }
    ensures early_breaks { failing server_asked B05 (Open ∷ gets lasting ∷ gets (asks_a 1 0) ∷ sends (Suback 1 (1 ∷ [])) ∷ sends accepting ∷ []) ≡ 4 ∷ [] }
    ensures turned_away_keeps { failing server_asked B05 (Open ∷ gets lasting ∷ gets (asks_a 1 0) ∷ sends (Suback 1 (1 ∷ [])) ∷ sends refusing ∷ []) ≡ [] }
    ensures unasked_keeps { failing server B05 (Open ∷ gets lasting ∷ sends accepting ∷ gets (asks_a 1 0) ∷ sends (Suback 1 (1 ∷ [])) ∷ []) ≡ [] }
    ensures client_keeps { failing client_asked B05 (Open ∷ sends lasting ∷ gets accepting ∷ gets (asks_a 1 0) ∷ sends (Suback 1 (1 ∷ [])) ∷ []) ≡ [] }
{}

/// What an UNSUBACK says of filters (B06 and B07).
pub fn unsubscribed()
    ensures denied_breaks { failing server_asked B06 (Open ∷ gets lasting ∷ sends accepting ∷ gets (asks_a 1 0) ∷ sends (Suback 1 (0 ∷ [])) ∷ gets (removes_a 2) ∷ sends (Unsuback 2 (17 ∷ [])) ∷ []) ≡ 7 ∷ [] }
    ensures removed_keeps { failing server_asked B06 (Open ∷ gets lasting ∷ sends accepting ∷ gets (asks_a 1 0) ∷ sends (Suback 1 (0 ∷ [])) ∷ gets (removes_a 2) ∷ sends (Unsuback 2 (0 ∷ [])) ∷ []) ≡ [] }
    ensures unanswered_keeps { failing server_asked B06 (Open ∷ gets lasting ∷ sends accepting ∷ gets (asks_a 1 0) ∷ gets (removes_a 2) ∷ sends (Unsuback 2 (17 ∷ [])) ∷ []) ≡ [] }
    ensures answered_after_keeps { failing server_asked B06 (Open ∷ gets lasting ∷ sends accepting ∷ gets (asks_a 1 0) ∷ gets (removes_a 2) ∷ sends (Suback 1 (0 ∷ [])) ∷ sends (Unsuback 2 (17 ∷ [])) ∷ []) ≡ [] }
    ensures refused_keeps { failing server_asked B06 (Open ∷ gets lasting ∷ sends accepting ∷ gets (asks_a 1 0) ∷ sends (Suback 1 (135 ∷ [])) ∷ gets (removes_a 2) ∷ sends (Unsuback 2 (17 ∷ [])) ∷ []) ≡ [] }
    ensures removed_before_keeps { failing server_asked B06 (Open ∷ gets lasting ∷ sends accepting ∷ gets (asks_a 1 0) ∷ sends (Suback 1 (0 ∷ [])) ∷ gets (removes_a 2) ∷ sends (Unsuback 2 (0 ∷ [])) ∷ gets (removes_a 3) ∷ sends (Unsuback 3 (17 ∷ [])) ∷ []) ≡ [] }
    ensures asked_to_remove_before_keeps { failing server_asked B06 (Open ∷ gets lasting ∷ sends accepting ∷ gets (asks_a 1 0) ∷ sends (Suback 1 (0 ∷ [])) ∷ gets (removes_a 2) ∷ gets (removes_a 3) ∷ sends (Unsuback 3 (17 ∷ [])) ∷ []) ≡ [] }
    ensures subscribed_again_breaks { failing server_asked B06 (Open ∷ gets lasting ∷ sends accepting ∷ gets (asks_a 1 0) ∷ sends (Suback 1 (0 ∷ [])) ∷ gets (removes_a 2) ∷ sends (Unsuback 2 (0 ∷ [])) ∷ gets (asks_a 3 0) ∷ sends (Suback 3 (0 ∷ [])) ∷ gets (removes_a 4) ∷ sends (Unsuback 4 (17 ∷ [])) ∷ []) ≡ 11 ∷ [] }
    ensures asked_again_keeps { failing server_asked B06 (Open ∷ gets lasting ∷ sends accepting ∷ gets (asks_a 1 0) ∷ sends (Suback 1 (0 ∷ [])) ∷ gets (asks_a 2 0) ∷ gets (removes_a 3) ∷ sends (Unsuback 3 (17 ∷ [])) ∷ []) ≡ [] }
    ensures twice_keeps { failing server_asked B06 (Open ∷ gets lasting ∷ sends accepting ∷ gets (asks_a 1 0) ∷ sends (Suback 1 (0 ∷ [])) ∷ gets (removes_twice 2) ∷ sends (Unsuback 2 (0 ∷ 17 ∷ [])) ∷ []) ≡ [] }
    ensures twice_breaks { failing server_asked B06 (Open ∷ gets lasting ∷ sends accepting ∷ gets (asks_a 1 0) ∷ sends (Suback 1 (0 ∷ [])) ∷ gets (removes_twice 2) ∷ sends (Unsuback 2 (17 ∷ 17 ∷ [])) ∷ []) ≡ 7 ∷ [] }
    ensures twice_exchanged_breaks { failing server_asked B06 (Open ∷ gets lasting ∷ sends accepting ∷ gets (asks_a 1 0) ∷ sends (Suback 1 (0 ∷ [])) ∷ gets (removes_twice 2) ∷ sends (Unsuback 2 (17 ∷ 0 ∷ [])) ∷ []) ≡ 7 ∷ [] }
    ensures last_code_breaks { failing server_asked B06 (Open ∷ gets lasting ∷ sends accepting ∷ gets (asks_twice 1) ∷ sends (Suback 1 (135 ∷ 0 ∷ [])) ∷ gets (removes_a 2) ∷ sends (Unsuback 2 (17 ∷ [])) ∷ []) ≡ 7 ∷ [] }
    ensures last_code_keeps { failing server_asked B06 (Open ∷ gets lasting ∷ sends accepting ∷ gets (asks_twice 1) ∷ sends (Suback 1 (0 ∷ 135 ∷ [])) ∷ gets (removes_a 2) ∷ sends (Unsuback 2 (17 ∷ [])) ∷ []) ≡ [] }
    ensures only_code_breaks { failing server_asked B06 (Open ∷ gets lasting ∷ sends accepting ∷ gets (asks_twice 1) ∷ sends (Suback 1 (0 ∷ [])) ∷ gets (removes_a 2) ∷ sends (Unsuback 2 (17 ∷ [])) ∷ []) ≡ 7 ∷ [] }
    ensures other_filter_keeps { failing server_asked B06 (Open ∷ gets lasting ∷ sends accepting ∷ gets (asks_b 1 0) ∷ sends (Suback 1 (0 ∷ [])) ∷ gets (removes_a 2) ∷ sends (Unsuback 2 (17 ∷ [])) ∷ []) ≡ [] }
    ensures second_breaks { failing server_asked B06 (Open ∷ gets lasting ∷ sends accepting ∷ gets (asks_b 1 0) ∷ sends (Suback 1 (0 ∷ [])) ∷ gets (removes_both 2) ∷ sends (Unsuback 2 (17 ∷ 17 ∷ [])) ∷ []) ≡ 7 ∷ [] }
    ensures second_keeps { failing server_asked B06 (Open ∷ gets lasting ∷ sends accepting ∷ gets (asks_b 1 0) ∷ sends (Suback 1 (0 ∷ [])) ∷ gets (removes_both 2) ∷ sends (Unsuback 2 (17 ∷ 0 ∷ [])) ∷ []) ≡ [] }
    ensures few_codes_keep { failing server_asked B06 (Open ∷ gets lasting ∷ sends accepting ∷ gets (asks_b 1 0) ∷ sends (Suback 1 (0 ∷ [])) ∷ gets (removes_both 2) ∷ sends (Unsuback 2 (17 ∷ [])) ∷ []) ≡ [] }
    ensures many_codes_keep { failing server_asked B06 (Open ∷ gets lasting ∷ sends accepting ∷ gets (asks_a 1 0) ∷ sends (Suback 1 (0 ∷ [])) ∷ gets (removes_a 2) ∷ sends (Unsuback 2 (0 ∷ 17 ∷ [])) ∷ []) ≡ [] }
    ensures failed_keeps { failing server_asked B06 (Open ∷ gets lasting ∷ sends accepting ∷ gets (asks_a 1 0) ∷ sends (Suback 1 (0 ∷ [])) ∷ gets (removes_a 2) ∷ sends (Unsuback 2 (128 ∷ [])) ∷ []) ≡ [] }
    ensures other_identifier_keeps { failing server_asked B06 (Open ∷ gets lasting ∷ sends accepting ∷ gets (asks_a 1 0) ∷ sends (Suback 1 (0 ∷ [])) ∷ gets (removes_a 2) ∷ sends (Unsuback 3 (17 ∷ [])) ∷ []) ≡ [] }
    ensures first_request_keeps { failing server_asked B06 (Open ∷ gets lasting ∷ sends accepting ∷ gets (asks_a 1 0) ∷ sends (Suback 1 (0 ∷ [])) ∷ gets (removes_b 2) ∷ gets (removes_a 2) ∷ sends (Unsuback 2 (17 ∷ [])) ∷ []) ≡ [] }
    ensures next_request_breaks { failing server_asked B06 (Open ∷ gets lasting ∷ sends accepting ∷ gets (asks_a 1 0) ∷ sends (Suback 1 (0 ∷ [])) ∷ gets (removes_b 2) ∷ sends (Unsuback 2 (17 ∷ [])) ∷ gets (removes_a 2) ∷ sends (Unsuback 2 (17 ∷ [])) ∷ []) ≡ 9 ∷ [] }
    ensures new_session_keeps { failing server_asked B06 (Open ∷ gets lasting ∷ sends accepting ∷ gets (asks_a 1 0) ∷ sends (Suback 1 (0 ∷ [])) ∷ Close ∷ Open ∷ gets lasting ∷ sends accepting ∷ gets (removes_a 2) ∷ sends (Unsuback 2 (17 ∷ [])) ∷ []) ≡ [] }
    ensures resumed_breaks { failing server_asked B06 (Open ∷ gets lasting ∷ sends accepting ∷ gets (asks_a 1 0) ∷ sends (Suback 1 (0 ∷ [])) ∷ Close ∷ Open ∷ gets again ∷ sends resuming ∷ gets (removes_a 2) ∷ sends (Unsuback 2 (17 ∷ [])) ∷ []) ≡ 11 ∷ [] }
    ensures later_keeps { failing server_asked B06 (Open ∷ gets lasting ∷ sends accepting ∷ gets (asks_a 1 0) ∷ sends (Suback 1 (0 ∷ [])) ∷ gets (removes_a 2) ∷ Close ∷ Open ∷ gets again ∷ sends resuming ∷ sends (Unsuback 2 (17 ∷ [])) ∷ []) ≡ [] }
    ensures disturbed_keeps { failing server_asked B06 (Open ∷ gets lasting ∷ sends accepting ∷ gets (asks_a 1 0) ∷ sends (Suback 1 (0 ∷ [])) ∷ Close ∷ Open ∷ gets again ∷ gets (removes_a 2) ∷ Close ∷ Open ∷ gets again ∷ sends resuming ∷ gets (removes_a 3) ∷ sends (Unsuback 3 (17 ∷ [])) ∷ []) ≡ [] }
    ensures early_breaks { failing server_asked B06 (Open ∷ gets lasting ∷ gets (asks_a 1 0) ∷ sends (Suback 1 (0 ∷ [])) ∷ gets (removes_a 2) ∷ sends (Unsuback 2 (17 ∷ [])) ∷ sends accepting ∷ []) ≡ 6 ∷ [] }
    ensures turned_away_keeps { failing server_asked B06 (Open ∷ gets lasting ∷ gets (asks_a 1 0) ∷ sends (Suback 1 (0 ∷ [])) ∷ gets (removes_a 2) ∷ sends (Unsuback 2 (17 ∷ [])) ∷ sends refusing ∷ []) ≡ [] }
    ensures void_keeps { failing server_asked B06 (Open ∷ gets lasting ∷ gets (asks_a 1 0) ∷ sends (Suback 1 (0 ∷ [])) ∷ sends refusing ∷ Close ∷ Open ∷ gets again ∷ sends resuming ∷ gets (removes_a 2) ∷ sends (Unsuback 2 (17 ∷ [])) ∷ []) ≡ [] }
    ensures bad_subscribe_keeps { failing server_asked B06 (Open ∷ gets lasting ∷ sends accepting ∷ gets (asks_a 1 0) ∷ sends (Suback 1 (0 ∷ [])) ∷ gets_bad 130 packets.W15 ∷ gets (removes_a 2) ∷ sends (Unsuback 2 (17 ∷ [])) ∷ []) ≡ [] }
    ensures bad_unsubscribe_keeps { failing server_asked B06 (Open ∷ gets lasting ∷ sends accepting ∷ gets (asks_a 1 0) ∷ sends (Suback 1 (0 ∷ [])) ∷ gets_bad 162 packets.W15 ∷ gets (removes_a 2) ∷ sends (Unsuback 2 (17 ∷ [])) ∷ []) ≡ [] }
    ensures lost_keeps { failing server_asked B06 (Open ∷ gets lasting ∷ sends accepting ∷ gets (asks_a 1 0) ∷ sends (Suback 1 (0 ∷ [])) ∷ gets (removes_a 2) ∷ gets_lost ∷ sends (Unsuback 2 (17 ∷ [])) ∷ []) ≡ [] }
    ensures bad_publish_breaks { failing server_asked B06 (Open ∷ gets lasting ∷ sends accepting ∷ gets (asks_a 1 0) ∷ sends (Suback 1 (0 ∷ [])) ∷ gets_bad 48 packets.W14 ∷ gets (removes_a 2) ∷ sends (Unsuback 2 (17 ∷ [])) ∷ []) ≡ 8 ∷ [] }
    ensures bad_after_breaks { failing server_asked B06 (Open ∷ gets lasting ∷ sends accepting ∷ gets (asks_a 1 0) ∷ sends (Suback 1 (0 ∷ [])) ∷ gets (removes_a 2) ∷ sends (Unsuback 2 (17 ∷ [])) ∷ gets_bad 162 packets.W15 ∷ []) ≡ 7 ∷ [] }
    ensures bad_before_keeps { failing server_asked B06 (Open ∷ gets lasting ∷ sends accepting ∷ gets (asks_a 1 0) ∷ sends (Suback 1 (0 ∷ [])) ∷ gets_bad 162 packets.W15 ∷ Close ∷ Open ∷ gets again ∷ sends resuming ∷ gets (removes_a 2) ∷ sends (Unsuback 2 (17 ∷ [])) ∷ []) ≡ [] }
    ensures bad_session_before_breaks { failing server_asked B06 (Open ∷ gets lasting ∷ sends accepting ∷ gets_bad 162 packets.W15 ∷ Close ∷ Open ∷ gets lasting ∷ sends accepting ∷ gets (asks_a 1 0) ∷ sends (Suback 1 (0 ∷ [])) ∷ gets (removes_a 2) ∷ sends (Unsuback 2 (17 ∷ [])) ∷ []) ≡ 12 ∷ [] }
    ensures lost_session_before_breaks { failing server_asked B06 (Open ∷ gets lasting ∷ sends accepting ∷ gets_lost ∷ Close ∷ Open ∷ gets lasting ∷ sends accepting ∷ gets (asks_a 1 0) ∷ sends (Suback 1 (0 ∷ [])) ∷ gets (removes_a 2) ∷ sends (Unsuback 2 (17 ∷ [])) ∷ []) ≡ 12 ∷ [] }
    ensures bad_void_keeps { failing server_asked B06 (Open ∷ gets lasting ∷ sends accepting ∷ gets (asks_a 1 0) ∷ sends (Suback 1 (0 ∷ [])) ∷ Close ∷ Open ∷ gets again ∷ gets_bad 162 packets.W15 ∷ Close ∷ Open ∷ gets again ∷ sends resuming ∷ gets (removes_a 2) ∷ sends (Unsuback 2 (17 ∷ [])) ∷ []) ≡ [] }
    ensures lost_void_keeps { failing server_asked B06 (Open ∷ gets lasting ∷ sends accepting ∷ gets (asks_a 1 0) ∷ sends (Suback 1 (0 ∷ [])) ∷ Close ∷ Open ∷ gets again ∷ gets_lost ∷ Close ∷ Open ∷ gets again ∷ sends resuming ∷ gets (removes_a 2) ∷ sends (Unsuback 2 (17 ∷ [])) ∷ []) ≡ [] }
    ensures bad_void_before_breaks { failing server_asked B06 (Open ∷ gets lasting ∷ gets_bad 162 packets.W15 ∷ Close ∷ Open ∷ gets lasting ∷ sends accepting ∷ gets (asks_a 1 0) ∷ sends (Suback 1 (0 ∷ [])) ∷ gets (removes_a 2) ∷ sends (Unsuback 2 (17 ∷ [])) ∷ []) ≡ 11 ∷ [] }
    ensures overtaken_keeps { failing server_asked B06 (Open ∷ gets lasting ∷ sends accepting ∷ gets (asks_a 1 0) ∷ sends (Suback 1 (0 ∷ [])) ∷ gets (removes_a 2) ∷ gets (removes_a 3) ∷ sends (Unsuback 3 (0 ∷ [])) ∷ sends (Unsuback 2 (17 ∷ [])) ∷ []) ≡ [] }
    ensures asked_between_keeps { failing server_asked B06 (Open ∷ gets lasting ∷ sends accepting ∷ gets (asks_a 1 0) ∷ sends (Suback 1 (0 ∷ [])) ∷ gets (removes_a 2) ∷ gets (asks_a 3 0) ∷ sends (Unsuback 2 (17 ∷ [])) ∷ []) ≡ [] }
    ensures in_use_breaks { failing server_asked B06 (Open ∷ gets lasting ∷ sends accepting ∷ gets (asks_a 1 0) ∷ gets (asks_b 1 0) ∷ sends (Suback 1 (0 ∷ [])) ∷ gets (removes_a 2) ∷ sends (Unsuback 2 (17 ∷ [])) ∷ []) ≡ 8 ∷ [] }
    ensures in_use_keeps { failing server_asked B06 (Open ∷ gets lasting ∷ sends accepting ∷ gets (asks_b 1 0) ∷ gets (asks_a 1 0) ∷ sends (Suback 1 (0 ∷ [])) ∷ sends (Suback 1 (145 ∷ [])) ∷ gets (removes_a 2) ∷ sends (Unsuback 2 (17 ∷ [])) ∷ []) ≡ [] }
    ensures unasked_keeps { failing server B06 (Open ∷ gets lasting ∷ sends accepting ∷ gets (asks_a 1 0) ∷ sends (Suback 1 (0 ∷ [])) ∷ gets (removes_a 2) ∷ sends (Unsuback 2 (17 ∷ [])) ∷ []) ≡ [] }
    ensures client_keeps { failing client_asked B06 (Open ∷ sends lasting ∷ gets accepting ∷ gets (asks_a 1 0) ∷ sends (Suback 1 (0 ∷ [])) ∷ gets (removes_a 2) ∷ sends (Unsuback 2 (17 ∷ [])) ∷ []) ≡ [] }
    ensures deleted_breaks { failing server_asked B07 (Open ∷ gets lasting ∷ sends accepting ∷ gets (removes_a 1) ∷ sends (Unsuback 1 (0 ∷ [])) ∷ []) ≡ 5 ∷ [] }
    ensures denied_keeps { failing server_asked B07 (Open ∷ gets lasting ∷ sends accepting ∷ gets (removes_a 1) ∷ sends (Unsuback 1 (17 ∷ [])) ∷ []) ≡ [] }
    ensures subscribed_keeps { failing server_asked B07 (Open ∷ gets lasting ∷ sends accepting ∷ gets (asks_a 1 0) ∷ sends (Suback 1 (0 ∷ [])) ∷ gets (removes_a 2) ∷ sends (Unsuback 2 (0 ∷ [])) ∷ []) ≡ [] }
    ensures waiting_keeps { failing server_asked B07 (Open ∷ gets lasting ∷ sends accepting ∷ gets (asks_a 1 0) ∷ gets (removes_a 2) ∷ sends (Unsuback 2 (0 ∷ [])) ∷ []) ≡ [] }
    ensures granted_after_keeps { failing server_asked B07 (Open ∷ gets lasting ∷ sends accepting ∷ gets (asks_a 1 0) ∷ gets (removes_a 2) ∷ sends (Suback 1 (0 ∷ [])) ∷ sends (Unsuback 2 (0 ∷ [])) ∷ []) ≡ [] }
    ensures refused_breaks { failing server_asked B07 (Open ∷ gets lasting ∷ sends accepting ∷ gets (asks_a 1 0) ∷ sends (Suback 1 (135 ∷ [])) ∷ gets (removes_a 2) ∷ sends (Unsuback 2 (0 ∷ [])) ∷ []) ≡ 7 ∷ [] }
    ensures refused_after_breaks { failing server_asked B07 (Open ∷ gets lasting ∷ sends accepting ∷ gets (asks_a 1 0) ∷ gets (removes_a 2) ∷ sends (Suback 1 (135 ∷ [])) ∷ sends (Unsuback 2 (0 ∷ [])) ∷ []) ≡ 7 ∷ [] }
    ensures refused_late_keeps { failing server_asked B07 (Open ∷ gets lasting ∷ sends accepting ∷ gets (asks_a 1 0) ∷ gets (removes_a 2) ∷ sends (Unsuback 2 (0 ∷ [])) ∷ sends (Suback 1 (135 ∷ [])) ∷ []) ≡ [] }
    ensures refused_again_keeps { failing server_asked B07 (Open ∷ gets lasting ∷ sends accepting ∷ gets (asks_a 1 0) ∷ sends (Suback 1 (0 ∷ [])) ∷ gets (asks_a 2 0) ∷ sends (Suback 2 (135 ∷ [])) ∷ gets (removes_a 3) ∷ sends (Unsuback 3 (0 ∷ [])) ∷ []) ≡ [] }
    ensures deleted_again_keeps { failing server_asked B07 (Open ∷ gets lasting ∷ sends accepting ∷ gets (asks_a 1 0) ∷ sends (Suback 1 (0 ∷ [])) ∷ gets (removes_a 2) ∷ sends (Unsuback 2 (0 ∷ [])) ∷ gets (removes_a 3) ∷ sends (Unsuback 3 (0 ∷ [])) ∷ []) ≡ [] }
    ensures deleted_twice_keeps { failing server_asked B07 (Open ∷ gets lasting ∷ sends accepting ∷ gets (asks_a 1 0) ∷ sends (Suback 1 (0 ∷ [])) ∷ gets (removes_twice 2) ∷ sends (Unsuback 2 (0 ∷ 0 ∷ [])) ∷ []) ≡ [] }
    ensures denied_and_deleted_breaks { failing server_asked B07 (Open ∷ gets lasting ∷ sends accepting ∷ gets (removes_twice 1) ∷ sends (Unsuback 1 (17 ∷ 0 ∷ [])) ∷ []) ≡ 5 ∷ [] }
    ensures granted_second_keeps { failing server_asked B07 (Open ∷ gets lasting ∷ sends accepting ∷ gets (asks_twice 1) ∷ sends (Suback 1 (135 ∷ 0 ∷ [])) ∷ gets (removes_a 2) ∷ sends (Unsuback 2 (0 ∷ [])) ∷ []) ≡ [] }
    ensures granted_first_keeps { failing server_asked B07 (Open ∷ gets lasting ∷ sends accepting ∷ gets (asks_twice 1) ∷ sends (Suback 1 (0 ∷ 135 ∷ [])) ∷ gets (removes_a 2) ∷ sends (Unsuback 2 (0 ∷ [])) ∷ []) ≡ [] }
    ensures refused_twice_breaks { failing server_asked B07 (Open ∷ gets lasting ∷ sends accepting ∷ gets (asks_twice 1) ∷ sends (Suback 1 (135 ∷ 135 ∷ [])) ∷ gets (removes_a 2) ∷ sends (Unsuback 2 (0 ∷ [])) ∷ []) ≡ 7 ∷ [] }
    ensures other_filter_breaks { failing server_asked B07 (Open ∷ gets lasting ∷ sends accepting ∷ gets (asks_b 1 0) ∷ sends (Suback 1 (0 ∷ [])) ∷ gets (removes_a 2) ∷ sends (Unsuback 2 (0 ∷ [])) ∷ []) ≡ 7 ∷ [] }
    ensures both_break { failing server_asked B07 (Open ∷ gets lasting ∷ sends accepting ∷ gets (asks_a 1 0) ∷ sends (Suback 1 (0 ∷ [])) ∷ gets (removes_both 2) ∷ sends (Unsuback 2 (0 ∷ 0 ∷ [])) ∷ []) ≡ 7 ∷ [] }
    ensures in_order_keeps { failing server_asked B07 (Open ∷ gets lasting ∷ sends accepting ∷ gets (asks_a 1 0) ∷ sends (Suback 1 (0 ∷ [])) ∷ gets (removes_both 2) ∷ sends (Unsuback 2 (0 ∷ 17 ∷ [])) ∷ []) ≡ [] }
    ensures exchanged_breaks { failing server_asked B07 (Open ∷ gets lasting ∷ sends accepting ∷ gets (asks_a 1 0) ∷ sends (Suback 1 (0 ∷ [])) ∷ gets (removes_both 2) ∷ sends (Unsuback 2 (17 ∷ 0 ∷ [])) ∷ []) ≡ 7 ∷ [] }
    ensures too_few_codes_keep { failing server_asked B07 (Open ∷ gets lasting ∷ sends accepting ∷ gets (asks_a 1 0) ∷ sends (Suback 1 (0 ∷ [])) ∷ gets (removes_both 2) ∷ sends (Unsuback 2 (0 ∷ [])) ∷ []) ≡ [] }
    ensures too_many_codes_keep { failing server_asked B07 (Open ∷ gets lasting ∷ sends accepting ∷ gets (removes_a 1) ∷ sends (Unsuback 1 (17 ∷ 0 ∷ [])) ∷ []) ≡ [] }
    ensures answer_to_none_keeps { failing server_asked B07 (Open ∷ gets lasting ∷ sends accepting ∷ gets (removes_a 1) ∷ sends (Unsuback 2 (0 ∷ [])) ∷ []) ≡ [] }
    ensures first_of_two_keeps { failing server_asked B07 (Open ∷ gets lasting ∷ sends accepting ∷ gets (asks_a 1 0) ∷ sends (Suback 1 (0 ∷ [])) ∷ gets (removes_a 2) ∷ gets (removes_b 2) ∷ sends (Unsuback 2 (0 ∷ [])) ∷ []) ≡ [] }
    ensures subscribed_between_keeps { failing server_asked B07 (Open ∷ gets lasting ∷ sends accepting ∷ gets (removes_a 1) ∷ gets (asks_a 2 0) ∷ sends (Unsuback 1 (0 ∷ [])) ∷ []) ≡ [] }
    ensures subscribed_after_breaks { failing server_asked B07 (Open ∷ gets lasting ∷ sends accepting ∷ gets (removes_a 1) ∷ sends (Unsuback 1 (0 ∷ [])) ∷ gets (asks_a 2 0) ∷ []) ≡ 5 ∷ [] }
    ensures begun_anew_breaks { failing server_asked B07 (Open ∷ gets lasting ∷ sends accepting ∷ gets (asks_a 1 0) ∷ sends (Suback 1 (0 ∷ [])) ∷ Close ∷ Open ∷ gets lasting ∷ sends accepting ∷ gets (removes_a 2) ∷ sends (Unsuback 2 (0 ∷ [])) ∷ []) ≡ 11 ∷ [] }
    ensures taken_up_keeps { failing server_asked B07 (Open ∷ gets lasting ∷ sends accepting ∷ gets (asks_a 1 0) ∷ sends (Suback 1 (0 ∷ [])) ∷ Close ∷ Open ∷ gets again ∷ sends resuming ∷ gets (removes_a 2) ∷ sends (Unsuback 2 (0 ∷ [])) ∷ []) ≡ [] }
    ensures taken_up_breaks { failing server_asked B07 (Open ∷ gets lasting ∷ sends accepting ∷ Close ∷ Open ∷ gets again ∷ sends resuming ∷ gets (removes_a 2) ∷ sends (Unsuback 2 (0 ∷ [])) ∷ []) ≡ 9 ∷ [] }
    ensures before_connack_breaks { failing server_asked B07 (Open ∷ gets lasting ∷ gets (removes_a 1) ∷ sends (Unsuback 1 (0 ∷ [])) ∷ sends accepting ∷ []) ≡ 4 ∷ [] }
    ensures not_accepted_keeps { failing server_asked B07 (Open ∷ gets lasting ∷ gets (removes_a 1) ∷ sends (Unsuback 1 (0 ∷ [])) ∷ sends refusing ∷ []) ≡ [] }
    ensures void_breaks { failing server_asked B07 (Open ∷ gets lasting ∷ gets (asks_a 1 0) ∷ sends (Suback 1 (0 ∷ [])) ∷ sends refusing ∷ Close ∷ Open ∷ gets again ∷ sends resuming ∷ gets (removes_a 2) ∷ sends (Unsuback 2 (0 ∷ [])) ∷ []) ≡ 11 ∷ [] }
    ensures unreadable_keeps { failing server_asked B07 (Open ∷ gets lasting ∷ sends accepting ∷ gets_bad 130 packets.W15 ∷ gets (removes_a 2) ∷ sends (Unsuback 2 (0 ∷ [])) ∷ []) ≡ [] }
    ensures unreadable_unsubscribe_keeps { failing server_asked B07 (Open ∷ gets lasting ∷ sends accepting ∷ gets_bad 162 packets.W15 ∷ gets (removes_a 2) ∷ sends (Unsuback 2 (0 ∷ [])) ∷ []) ≡ [] }
    ensures unreadable_stream_keeps { failing server_asked B07 (Open ∷ gets lasting ∷ sends accepting ∷ gets (removes_a 1) ∷ gets_lost ∷ sends (Unsuback 1 (0 ∷ [])) ∷ []) ≡ [] }
    ensures readable_breaks { failing server_asked B07 (Open ∷ gets lasting ∷ sends accepting ∷ gets_bad 48 packets.W14 ∷ gets (removes_a 2) ∷ sends (Unsuback 2 (0 ∷ [])) ∷ []) ≡ 6 ∷ [] }
    ensures unreadable_after_breaks { failing server_asked B07 (Open ∷ gets lasting ∷ sends accepting ∷ gets (removes_a 2) ∷ sends (Unsuback 2 (0 ∷ [])) ∷ gets_bad 130 packets.W15 ∷ []) ≡ 5 ∷ [] }
    ensures unreadable_earlier_keeps { failing server_asked B07 (Open ∷ gets lasting ∷ sends accepting ∷ gets_bad 130 packets.W15 ∷ Close ∷ Open ∷ gets again ∷ sends resuming ∷ gets (removes_a 2) ∷ sends (Unsuback 2 (0 ∷ [])) ∷ []) ≡ [] }
    ensures unreadable_session_breaks { failing server_asked B07 (Open ∷ gets lasting ∷ sends accepting ∷ gets_bad 130 packets.W15 ∷ Close ∷ Open ∷ gets lasting ∷ sends accepting ∷ gets (removes_a 2) ∷ sends (Unsuback 2 (0 ∷ [])) ∷ []) ≡ 10 ∷ [] }
    ensures unreadable_void_keeps { failing server_asked B07 (Open ∷ gets lasting ∷ sends accepting ∷ Close ∷ Open ∷ gets again ∷ gets_bad 130 packets.W15 ∷ Close ∷ Open ∷ gets again ∷ sends resuming ∷ gets (removes_a 2) ∷ sends (Unsuback 2 (0 ∷ [])) ∷ []) ≡ [] }
    ensures unreadable_refused_keeps { failing server_asked B07 (Open ∷ gets lasting ∷ gets_bad 130 packets.W15 ∷ sends refusing ∷ Close ∷ Open ∷ gets again ∷ sends resuming ∷ gets (removes_a 2) ∷ sends (Unsuback 2 (0 ∷ [])) ∷ []) ≡ [] }
    ensures in_use_refused_breaks { failing server_asked B07 (Open ∷ gets lasting ∷ sends accepting ∷ gets (asks_a 1 0) ∷ gets (asks_b 1 0) ∷ sends (Suback 1 (135 ∷ [])) ∷ gets (removes_a 2) ∷ sends (Unsuback 2 (0 ∷ [])) ∷ []) ≡ 8 ∷ [] }
    ensures in_use_granted_keeps { failing server_asked B07 (Open ∷ gets lasting ∷ sends accepting ∷ gets (asks_b 1 0) ∷ gets (asks_a 1 0) ∷ sends (Suback 1 (135 ∷ [])) ∷ sends (Suback 1 (0 ∷ [])) ∷ gets (removes_a 2) ∷ sends (Unsuback 2 (0 ∷ [])) ∷ []) ≡ [] }
    ensures not_asked_keeps { failing server B07 (Open ∷ gets lasting ∷ sends accepting ∷ gets (removes_a 2) ∷ sends (Unsuback 2 (0 ∷ [])) ∷ []) ≡ [] }
    ensures of_client_keeps { failing client_asked B07 (Open ∷ sends lasting ∷ gets accepting ∷ gets (removes_a 2) ∷ sends (Unsuback 2 (0 ∷ [])) ∷ []) ≡ [] }
{}

/// Ends that a statement doesn't bind, and an end whose releases aren't recorded, in logs at which
/// it would be false (a family each).
pub fn unbound_ends()
    ensures server_begins { failing server C02 (Open ∷ gets lasting ∷ sends accepting ∷ []) ≡ [] }
    ensures client_begins { failing client C05 (Open ∷ sends lasting ∷ gets accepting ∷ []) ≡ [] }
    ensures server_resends { failing server S05 (Open ∷ gets lasting ∷ sends accepting ∷ sends (once false 1) ∷ sends (once false 2) ∷ Close ∷ Open ∷ gets again ∷ sends resuming ∷ sends (once true 2) ∷ sends (once true 1) ∷ []) ≡ [] }
    ensures server_acknowledges { failing server E1O (Open ∷ gets lasting ∷ sends accepting ∷ gets (once false 1) ∷ gets (once false 2) ∷ sends (Puback 2 0) ∷ sends (Puback 1 0) ∷ []) ≡ [] }
    ensures client_answers { failing client E5A (Open ∷ sends lasting ∷ gets accepting ∷ sends (Suback 1 []) ∷ []) ≡ [] }
    ensures unrecorded_completes { failing client_unrecorded L3 (Open ∷ sends lasting ∷ gets accepting ∷ gets (exactly false 1) ∷ gets (Pubrel 1 0) ∷ sends (Pubcomp 1 0) ∷ []) ≡ [] }
    ensures client_publishes { failing client B01 (Open ∷ sends lasting ∷ gets accepting ∷ sends at_most_once ∷ []) ≡ [] }
{}

/// What a client with an Authentication Method sends before a CONNACK (A01).
pub fn before_a_connack()
    ensures packet_breaks { failing client_asked A01 (Open ∷ sends with_method ∷ sends auth_alone ∷ sends Pingreq ∷ gets naming_method ∷ sends Pingreq ∷ []) ≡ 4 ∷ [] }
    ensures packet_keeps { failing client_asked A01 (Open ∷ sends with_method ∷ sends auth_alone ∷ gets naming_method ∷ sends Pingreq ∷ []) ≡ [] }
    ensures auth_breaks { failing client_asked A01 (Open ∷ sends with_method ∷ gets auth_alone ∷ sends Pingreq ∷ []) ≡ 4 ∷ [] }
    ensures leaving_keeps { failing client_asked A01 (Open ∷ sends with_method ∷ sends (leaving_by 0) ∷ []) ≡ [] }
    ensures connect_keeps { failing client_asked A01 (Open ∷ sends with_method ∷ sends lasting ∷ []) ≡ [] }
    ensures bytes_break { failing client_asked A01 (Open ∷ sends with_method ∷ sends_bad 192 packets.W01 ∷ []) ≡ 3 ∷ [] }
    ensures bytes_keep { failing client_asked A01 (Open ∷ sends with_method ∷ sends_bad 224 packets.W13 ∷ sends_lost ∷ []) ≡ [] }
    ensures refusal_keeps { failing client_asked A01 (Open ∷ sends with_method ∷ gets refusing ∷ sends Pingreq ∷ []) ≡ [] }
    ensures bad_connack_keeps { failing client_asked A01 (Open ∷ sends with_method ∷ gets_bad 32 packets.W13 ∷ sends Pingreq ∷ []) ≡ [] }
    ensures bad_auth_breaks { failing client_asked A01 (Open ∷ sends with_method ∷ gets_bad 240 packets.W13 ∷ sends Pingreq ∷ []) ≡ 4 ∷ [] }
    ensures lost_keeps { failing client_asked A01 (Open ∷ sends with_method ∷ gets_lost ∷ sends Pingreq ∷ []) ≡ [] }
    ensures plain_keeps { failing client_asked A01 (Open ∷ sends lasting ∷ sends with_method ∷ sends Pingreq ∷ []) ≡ [] }
    ensures anew_breaks { failing client_asked A01 (Open ∷ sends with_method ∷ gets naming_method ∷ Close ∷ Open ∷ sends with_method ∷ sends Pingreq ∷ []) ≡ 7 ∷ [] }
    ensures unasked_keeps { failing client A01 (Open ∷ sends with_method ∷ sends Pingreq ∷ []) ≡ [] }
    ensures server_keeps { failing server_asked A01 (Open ∷ gets with_method ∷ sends Pingresp ∷ []) ≡ [] }
{}

/// What a server does after a CONNECT (C24).
pub fn after_a_connect()
    ensures rest_breaks { failing server_asked C24 (Open ∷ gets lasting ∷ Rest ∷ []) ≡ 2 ∷ [] }
    ensures connack_keeps { failing server_asked C24 (Open ∷ gets lasting ∷ sends accepting ∷ Rest ∷ []) ≡ [] }
    ensures refusal_keeps { failing server_asked C24 (Open ∷ gets lasting ∷ sends refusing ∷ Rest ∷ []) ≡ [] }
    ensures late_connack_breaks { failing server_asked C24 (Open ∷ gets lasting ∷ Rest ∷ sends accepting ∷ Rest ∷ []) ≡ 2 ∷ [] }
    ensures close_keeps { failing server_asked C24 (Open ∷ gets lasting ∷ Close ∷ []) ≡ [] }
    ensures waiting_keeps { failing server_asked C24 (Open ∷ gets with_method ∷ sends auth_alone ∷ Rest ∷ []) ≡ [] }
    ensures authenticated_breaks { failing server_asked C24 (Open ∷ gets with_method ∷ sends auth_alone ∷ gets auth_alone ∷ Rest ∷ []) ≡ 2 ∷ [] }
    ensures later_rest_breaks { failing server_asked C24 (Open ∷ gets with_method ∷ sends auth_alone ∷ Rest ∷ gets auth_alone ∷ Rest ∷ []) ≡ 2 ∷ [] }
    ensures early_auth_keeps { failing server_asked C24 (Open ∷ gets with_method ∷ gets auth_alone ∷ sends auth_alone ∷ Rest ∷ []) ≡ [] }
    ensures late_auth_breaks { failing server_asked C24 (Open ∷ gets with_method ∷ Rest ∷ sends auth_alone ∷ Rest ∷ []) ≡ 2 ∷ [] }
    ensures second_breaks { failing server_asked C24 (Open ∷ gets lasting ∷ gets lasting ∷ Rest ∷ []) ≡ 2 ∷ [] }
    ensures left_keeps { failing server_asked C24 (Open ∷ gets lasting ∷ gets (leaving None) ∷ Rest ∷ []) ≡ [] }
    ensures goodbye_keeps { failing server_asked C24 (Open ∷ gets lasting ∷ sends (leaving_by 130) ∷ Rest ∷ []) ≡ [] }
    ensures connack_before_keeps { failing server_asked C24 (Open ∷ sends accepting ∷ gets lasting ∷ Rest ∷ []) ≡ [] }
    ensures bytes_keep { failing server_asked C24 (Open ∷ gets_bad 16 packets.W13 ∷ Rest ∷ []) ≡ [] }
    ensures received_bytes_keep { failing server_asked C24 (Open ∷ gets lasting ∷ gets_bad 192 packets.W01 ∷ Rest ∷ []) ≡ [] }
    ensures sent_bytes_keep { failing server_asked C24 (Open ∷ gets lasting ∷ sends_bad 32 packets.W13 ∷ Rest ∷ []) ≡ [] }
    ensures lost_keeps { failing server_asked C24 (Open ∷ gets lasting ∷ gets_lost ∷ Rest ∷ []) ≡ [] }
    ensures small_keeps { failing server_asked C24 (Open ∷ gets (asking None None None None (Some 4)) ∷ Rest ∷ []) ≡ [] }
    ensures large_enough_breaks { failing server_asked C24 (Open ∷ gets (asking None None None None (Some 5)) ∷ Rest ∷ []) ≡ 2 ∷ [] }
    ensures no_connect_keeps { failing server_asked C24 (Open ∷ Rest ∷ gets Pingreq ∷ Rest ∷ []) ≡ [] }
    ensures anew_breaks { failing server_asked C24 (Open ∷ gets lasting ∷ sends accepting ∷ Close ∷ Open ∷ gets lasting ∷ Rest ∷ []) ≡ 6 ∷ [] }
    ensures unasked_keeps { failing server C24 (Open ∷ gets lasting ∷ Rest ∷ []) ≡ [] }
    ensures client_keeps { failing client_asked C24 (Open ∷ sends lasting ∷ gets lasting ∷ Rest ∷ []) ≡ [] }
{}

/// What a server does after a Malformed Packet (D01).
pub fn after_a_malformed_packet()
    ensures rest_breaks { failing server_asked D01 (Open ∷ gets lasting ∷ sends accepting ∷ gets_bad 192 packets.W01 ∷ Rest ∷ []) ≡ 4 ∷ [] }
    ensures close_keeps { failing server_asked D01 (Open ∷ gets lasting ∷ sends accepting ∷ gets_bad 192 packets.W01 ∷ Close ∷ []) ≡ [] }
    ensures goodbye_keeps { failing server_asked D01 (Open ∷ gets lasting ∷ sends accepting ∷ gets_bad 192 packets.W01 ∷ sends (leaving_by 129) ∷ Rest ∷ []) ≡ [] }
    ensures late_goodbye_breaks { failing server_asked D01 (Open ∷ gets lasting ∷ sends accepting ∷ gets_bad 192 packets.W01 ∷ Rest ∷ sends (leaving_by 129) ∷ Rest ∷ []) ≡ 4 ∷ [] }
    ensures lost_breaks { failing server_asked D01 (Open ∷ gets lasting ∷ sends accepting ∷ gets_lost ∷ Rest ∷ []) ≡ 4 ∷ [] }
    ensures connect_breaks { failing server_asked D01 (Open ∷ gets_bad 16 packets.W04 ∷ sends accepting ∷ Rest ∷ []) ≡ 2 ∷ [] }
    ensures refusal_keeps { failing server_asked D01 (Open ∷ gets_bad 16 packets.W04 ∷ sends refusing ∷ Rest ∷ []) ≡ [] }
    ensures second_keeps { failing server_asked D01 (Open ∷ gets lasting ∷ sends accepting ∷ gets_bad 192 packets.W01 ∷ gets_bad 192 packets.W01 ∷ Rest ∷ []) ≡ 4 ∷ [] }
    ensures length_keeps { failing server_asked D01 (Open ∷ gets lasting ∷ sends accepting ∷ gets_bad 192 packets.W03 ∷ Rest ∷ []) ≡ [] }
    ensures duplicate_keeps { failing server_asked D01 (Open ∷ gets lasting ∷ sends accepting ∷ gets_bad 56 packets.W08 ∷ Rest ∷ []) ≡ [] }
    ensures identifier_keeps { failing server_asked D01 (Open ∷ gets lasting ∷ sends accepting ∷ gets_bad 50 packets.W09 ∷ Rest ∷ []) ≡ [] }
    ensures code_keeps { failing server_asked D01 (Open ∷ gets lasting ∷ sends accepting ∷ gets_bad 224 packets.W13 ∷ Rest ∷ []) ≡ [] }
    ensures topic_keeps { failing server_asked D01 (Open ∷ gets lasting ∷ sends accepting ∷ gets_bad 48 packets.W14 ∷ Rest ∷ []) ≡ [] }
    ensures filter_keeps { failing server_asked D01 (Open ∷ gets lasting ∷ sends accepting ∷ gets_bad 130 packets.W15 ∷ Rest ∷ []) ≡ [] }
    ensures after_a_filter_breaks { failing server_asked D01 (Open ∷ gets lasting ∷ sends accepting ∷ gets_bad 130 packets.W15 ∷ gets_bad 130 packets.W10 ∷ Rest ∷ []) ≡ 5 ∷ [] }
    ensures sent_keeps { failing server_asked D01 (Open ∷ gets lasting ∷ sends accepting ∷ sends_bad 208 packets.W01 ∷ Rest ∷ []) ≡ [] }
    ensures no_rest_keeps { failing server_asked D01 (Open ∷ gets lasting ∷ sends accepting ∷ Rest ∷ gets_bad 192 packets.W01 ∷ sends Pingresp ∷ []) ≡ [] }
    ensures next_keeps { failing server_asked D01 (Open ∷ gets lasting ∷ sends accepting ∷ gets_bad 192 packets.W01 ∷ Close ∷ Open ∷ gets lasting ∷ sends accepting ∷ Rest ∷ []) ≡ [] }
    ensures anew_breaks { failing server_asked D01 (Open ∷ gets_bad 16 packets.W04 ∷ Close ∷ Open ∷ gets lasting ∷ gets_bad 192 packets.W01 ∷ Rest ∷ []) ≡ 6 ∷ [] }
    ensures left_keeps { failing server_asked D01 (Open ∷ gets lasting ∷ sends accepting ∷ gets (leaving None) ∷ gets_bad 192 packets.W01 ∷ Rest ∷ []) ≡ [] }
    ensures leaving_breaks { failing server_asked D01 (Open ∷ gets lasting ∷ sends accepting ∷ gets_bad 192 packets.W01 ∷ gets (leaving None) ∷ Rest ∷ []) ≡ 4 ∷ [] }
    ensures goodbye_before_keeps { failing server_asked D01 (Open ∷ gets lasting ∷ sends (leaving_by 130) ∷ gets_bad 192 packets.W01 ∷ Rest ∷ []) ≡ [] }
    ensures unasked_keeps { failing server D01 (Open ∷ gets lasting ∷ gets_bad 192 packets.W01 ∷ Rest ∷ []) ≡ [] }
    ensures client_keeps { failing client_asked D01 (Open ∷ sends lasting ∷ gets accepting ∷ gets_bad 208 packets.W01 ∷ sends_bad 192 packets.W01 ∷ Rest ∷ []) ≡ [] }
{}

/// What a server does after a second CONNECT (D02).
pub fn after_a_second_connect()
    ensures rest_breaks { failing server_asked D02 (Open ∷ gets lasting ∷ sends accepting ∷ gets lasting ∷ Rest ∷ []) ≡ 4 ∷ [] }
    ensures close_keeps { failing server_asked D02 (Open ∷ gets lasting ∷ sends accepting ∷ gets lasting ∷ Close ∷ []) ≡ [] }
    ensures goodbye_keeps { failing server_asked D02 (Open ∷ gets lasting ∷ sends accepting ∷ gets lasting ∷ sends (leaving_by 130) ∷ Rest ∷ []) ≡ [] }
    ensures late_goodbye_breaks { failing server_asked D02 (Open ∷ gets lasting ∷ sends accepting ∷ gets lasting ∷ Rest ∷ sends (leaving_by 130) ∷ Rest ∷ []) ≡ 4 ∷ [] }
    ensures early_breaks { failing server_asked D02 (Open ∷ gets lasting ∷ gets lasting ∷ sends accepting ∷ Rest ∷ []) ≡ 3 ∷ [] }
    ensures refusal_keeps { failing server_asked D02 (Open ∷ gets lasting ∷ gets lasting ∷ sends refusing ∷ Rest ∷ []) ≡ [] }
    ensures bytes_break { failing server_asked D02 (Open ∷ gets lasting ∷ sends accepting ∷ gets_bad 16 packets.W13 ∷ Rest ∷ []) ≡ 4 ∷ [] }
    ensures first_bytes_break { failing server_asked D02 (Open ∷ gets_bad 16 packets.W13 ∷ gets lasting ∷ Rest ∷ []) ≡ 3 ∷ [] }
    ensures lost_keeps { failing server_asked D02 (Open ∷ gets lasting ∷ sends accepting ∷ gets_lost ∷ Rest ∷ []) ≡ [] }
    ensures third_keeps { failing server_asked D02 (Open ∷ gets lasting ∷ gets lasting ∷ gets lasting ∷ Rest ∷ []) ≡ 3 ∷ [] }
    ensures no_rest_keeps { failing server_asked D02 (Open ∷ gets lasting ∷ sends accepting ∷ Rest ∷ gets lasting ∷ sends Pingresp ∷ []) ≡ [] }
    ensures next_keeps { failing server_asked D02 (Open ∷ gets lasting ∷ sends accepting ∷ gets lasting ∷ Close ∷ Open ∷ gets lasting ∷ sends accepting ∷ Rest ∷ []) ≡ [] }
    ensures anew_breaks { failing server_asked D02 (Open ∷ gets lasting ∷ Close ∷ Open ∷ gets lasting ∷ gets lasting ∷ Rest ∷ []) ≡ 6 ∷ [] }
    ensures left_keeps { failing server_asked D02 (Open ∷ gets lasting ∷ sends accepting ∷ gets (leaving None) ∷ gets lasting ∷ Rest ∷ []) ≡ [] }
    ensures leaving_breaks { failing server_asked D02 (Open ∷ gets lasting ∷ sends accepting ∷ gets lasting ∷ gets (leaving None) ∷ Rest ∷ []) ≡ 4 ∷ [] }
    ensures goodbye_before_keeps { failing server_asked D02 (Open ∷ gets lasting ∷ sends (leaving_by 130) ∷ gets lasting ∷ Rest ∷ []) ≡ [] }
    ensures unasked_keeps { failing server D02 (Open ∷ gets lasting ∷ gets lasting ∷ Rest ∷ []) ≡ [] }
    ensures client_keeps { failing client_asked D02 (Open ∷ sends lasting ∷ sends lasting ∷ gets lasting ∷ gets lasting ∷ Rest ∷ []) ≡ [] }
{}

/// What a server does after a Protocol Error (D03).
pub fn after_a_protocol_error()
    ensures of_servers_breaks { failing server_asked D03 (Open ∷ gets lasting ∷ sends accepting ∷ gets Pingresp ∷ Rest ∷ []) ≡ 4 ∷ [] }
    ensures connack_breaks { failing server_asked D03 (Open ∷ gets lasting ∷ sends accepting ∷ gets accepting ∷ Rest ∷ []) ≡ 4 ∷ [] }
    ensures suback_breaks { failing server_asked D03 (Open ∷ gets lasting ∷ sends accepting ∷ gets (Suback 1 (0 ∷ [])) ∷ Rest ∷ []) ≡ 4 ∷ [] }
    ensures unsuback_breaks { failing server_asked D03 (Open ∷ gets lasting ∷ sends accepting ∷ gets (Unsuback 1 (0 ∷ [])) ∷ Rest ∷ []) ≡ 4 ∷ [] }
    ensures of_clients_keeps { failing server_asked D03 (Open ∷ gets lasting ∷ sends accepting ∷ gets Pingreq ∷ sends Pingresp ∷ Rest ∷ []) ≡ [] }
    ensures too_early_breaks { failing server_asked D03 (Open ∷ gets Pingreq ∷ gets lasting ∷ sends accepting ∷ Rest ∷ []) ≡ 2 ∷ [] }
    ensures after_bytes_keeps { failing server_asked D03 (Open ∷ gets_bad 16 packets.W13 ∷ gets Pingreq ∷ Rest ∷ []) ≡ [] }
    ensures second_connect_keeps { failing server_asked D03 (Open ∷ gets lasting ∷ sends accepting ∷ gets lasting ∷ Rest ∷ []) ≡ [] }
    ensures auth_breaks { failing server_asked D03 (Open ∷ gets lasting ∷ sends accepting ∷ gets auth_alone ∷ Rest ∷ []) ≡ 4 ∷ [] }
    ensures auth_keeps { failing server_asked D03 (Open ∷ gets with_method ∷ sends accepting ∷ gets auth_alone ∷ Rest ∷ []) ≡ [] }
    ensures prolonging_breaks { failing server_asked D03 (Open ∷ gets fleeting ∷ sends accepting ∷ gets (leaving (Some 60)) ∷ Rest ∷ []) ≡ 4 ∷ [] }
    ensures ending_keeps { failing server_asked D03 (Open ∷ gets fleeting ∷ sends accepting ∷ gets (leaving (Some 0)) ∷ Rest ∷ []) ≡ [] }
    ensures lasting_keeps { failing server_asked D03 (Open ∷ gets lasting ∷ sends accepting ∷ gets (leaving (Some 60)) ∷ Rest ∷ []) ≡ [] }
    ensures large_breaks { failing server_asked D03 (Open ∷ gets lasting ∷ sends (limiting false None None None (Some 9)) ∷ gets Pingreq ∷ Rest ∷ []) ≡ 4 ∷ [] }
    ensures as_large_keeps { failing server_asked D03 (Open ∷ gets lasting ∷ sends (limiting false None None None (Some 10)) ∷ gets Pingreq ∷ Rest ∷ []) ≡ [] }
    ensures high_alias_breaks { failing server_asked D03 (Open ∷ gets lasting ∷ sends (limiting false None (Some 5) None None) ∷ gets (aliased (97 ∷ []) 6) ∷ Rest ∷ []) ≡ 4 ∷ [] }
    ensures highest_alias_keeps { failing server_asked D03 (Open ∷ gets lasting ∷ sends (limiting false None (Some 5) None None) ∷ gets (aliased (97 ∷ []) 5) ∷ gets (aliased [] 5) ∷ Rest ∷ []) ≡ [] }
    ensures any_alias_breaks { failing server_asked D03 (Open ∷ gets lasting ∷ sends accepting ∷ gets (aliased (97 ∷ []) 1) ∷ Rest ∷ []) ≡ 4 ∷ [] }
    ensures unset_alias_breaks { failing server_asked D03 (Open ∷ gets lasting ∷ sends (limiting false None (Some 5) None None) ∷ gets (aliased (97 ∷ []) 2) ∷ gets (aliased [] 1) ∷ Rest ∷ []) ≡ 5 ∷ [] }
    ensures early_alias_keeps { failing server_asked D03 (Open ∷ gets lasting ∷ gets (aliased (97 ∷ []) 1) ∷ sends (limiting false None (Some 5) None None) ∷ gets (aliased [] 1) ∷ Rest ∷ []) ≡ [] }
    ensures alias_after_bytes_keeps { failing server_asked D03 (Open ∷ gets lasting ∷ sends (limiting false None (Some 5) None None) ∷ gets_bad 48 packets.W03 ∷ gets (aliased [] 1) ∷ Rest ∷ []) ≡ [] }
    ensures alias_of_another_breaks { failing server_asked D03 (Open ∷ gets lasting ∷ sends (limiting false None (Some 5) None None) ∷ gets (aliased (97 ∷ []) 1) ∷ Close ∷ Open ∷ gets lasting ∷ sends (limiting false None (Some 5) None None) ∷ gets (aliased [] 1) ∷ Rest ∷ []) ≡ 9 ∷ [] }
    ensures identified_breaks { failing server_asked D03 (Open ∷ gets lasting ∷ sends accepting ∷ gets subscribed ∷ Rest ∷ []) ≡ 4 ∷ [] }
    ensures high_qos_breaks { failing server_asked D03 (Open ∷ gets lasting ∷ sends (limiting false None None (Some 1) None) ∷ gets (exactly false 1) ∷ Rest ∷ []) ≡ 4 ∷ [] }
    ensures as_high_qos_keeps { failing server_asked D03 (Open ∷ gets lasting ∷ sends (limiting false None None (Some 1) None) ∷ gets (once false 1) ∷ sends (Puback 1 0) ∷ Rest ∷ []) ≡ [] }
    ensures retained_breaks { failing server_asked D03 (Open ∷ gets lasting ∷ sends (lacking (Some 0) None None None) ∷ gets retained_at_most_once ∷ Rest ∷ []) ≡ 4 ∷ [] }
    ensures retained_keeps { failing server_asked D03 (Open ∷ gets lasting ∷ sends (lacking (Some 1) None None None) ∷ gets retained_at_most_once ∷ Rest ∷ []) ≡ [] }
    ensures not_retained_keeps { failing server_asked D03 (Open ∷ gets lasting ∷ sends (lacking (Some 0) None None None) ∷ gets at_most_once ∷ Rest ∷ []) ≡ [] }
    ensures before_connack_keeps { failing server_asked D03 (Open ∷ gets lasting ∷ gets retained_at_most_once ∷ sends (lacking (Some 0) None None None) ∷ Rest ∷ []) ≡ [] }
    ensures no_local_breaks { failing server_asked D03 (Open ∷ gets lasting ∷ sends accepting ∷ gets asks_no_local ∷ Rest ∷ []) ≡ 4 ∷ [] }
    ensures share_keeps { failing server_asked D03 (Open ∷ gets lasting ∷ sends (lacking None None None (Some 0)) ∷ gets asks_to_share ∷ Rest ∷ []) ≡ [] }
    ensures wildcard_keeps { failing server_asked D03 (Open ∷ gets lasting ∷ sends (lacking None (Some 0) None None) ∷ gets asks_widely ∷ Rest ∷ []) ≡ [] }
    ensures identifier_breaks { failing server_asked D03 (Open ∷ gets lasting ∷ sends (lacking None None (Some 0) None) ∷ gets asks_identified ∷ Rest ∷ []) ≡ 4 ∷ [] }
    ensures identifier_keeps { failing server_asked D03 (Open ∷ gets lasting ∷ sends accepting ∷ gets asks_identified ∷ Rest ∷ []) ≡ [] }
    ensures close_keeps { failing server_asked D03 (Open ∷ gets lasting ∷ sends accepting ∷ gets Pingresp ∷ Close ∷ []) ≡ [] }
    ensures goodbye_keeps { failing server_asked D03 (Open ∷ gets lasting ∷ sends accepting ∷ gets Pingresp ∷ sends (leaving_by 130) ∷ Rest ∷ []) ≡ [] }
    ensures late_goodbye_breaks { failing server_asked D03 (Open ∷ gets lasting ∷ sends accepting ∷ gets Pingresp ∷ Rest ∷ sends (leaving_by 130) ∷ Rest ∷ []) ≡ 4 ∷ [] }
    ensures refusal_keeps { failing server_asked D03 (Open ∷ gets Pingreq ∷ gets lasting ∷ sends refusing ∷ Rest ∷ []) ≡ [] }
    ensures second_keeps { failing server_asked D03 (Open ∷ gets lasting ∷ sends accepting ∷ gets Pingresp ∷ gets subscribed ∷ Rest ∷ []) ≡ 4 ∷ [] }
    ensures no_rest_keeps { failing server_asked D03 (Open ∷ gets lasting ∷ sends accepting ∷ Rest ∷ gets Pingresp ∷ sends Pingresp ∷ []) ≡ [] }
    ensures next_keeps { failing server_asked D03 (Open ∷ gets lasting ∷ sends accepting ∷ gets Pingresp ∷ Close ∷ Open ∷ gets lasting ∷ sends accepting ∷ Rest ∷ []) ≡ [] }
    ensures anew_breaks { failing server_asked D03 (Open ∷ gets Pingresp ∷ Close ∷ Open ∷ gets lasting ∷ gets Pingresp ∷ Rest ∷ []) ≡ 6 ∷ [] }
    ensures left_keeps { failing server_asked D03 (Open ∷ gets lasting ∷ sends accepting ∷ gets (leaving None) ∷ gets Pingresp ∷ Rest ∷ []) ≡ [] }
    ensures bytes_keep { failing server_asked D03 (Open ∷ gets lasting ∷ sends accepting ∷ gets_bad 208 packets.W01 ∷ Rest ∷ []) ≡ [] }
    ensures unasked_keeps { failing server D03 (Open ∷ gets lasting ∷ gets Pingresp ∷ Rest ∷ []) ≡ [] }
    ensures client_keeps { failing client_asked D03 (Open ∷ sends lasting ∷ gets accepting ∷ sends Pingresp ∷ gets Pingreq ∷ Rest ∷ []) ≡ [] }
{}

/// What a server does after more QoS 2 PUBLISHes than its Receive Maximum (D05).
pub fn after_too_many_publishes()
    ensures above_breaks { failing server_asked D05 (Open ∷ gets lasting ∷ sends (limiting false (Some 1) None None None) ∷ gets (exactly false 1) ∷ gets (exactly false 2) ∷ sends (Pubrec 1 0) ∷ sends (Pubrec 2 0) ∷ Rest ∷ []) ≡ 5 ∷ [] }
    ensures as_many_keeps { failing server_asked D05 (Open ∷ gets lasting ∷ sends (limiting false (Some 1) None None None) ∷ gets (exactly false 1) ∷ Rest ∷ []) ≡ [] }
    ensures received_breaks { failing server_asked D05 (Open ∷ gets lasting ∷ sends (limiting false (Some 1) None None None) ∷ gets (exactly false 1) ∷ sends (Pubrec 1 0) ∷ gets (exactly false 2) ∷ Rest ∷ []) ≡ 6 ∷ [] }
    ensures released_keeps { failing server_asked D05 (Open ∷ gets lasting ∷ sends (limiting false (Some 1) None None None) ∷ gets (exactly false 1) ∷ sends (Pubrec 1 0) ∷ gets (Pubrel 1 0) ∷ gets (exactly false 2) ∷ Rest ∷ []) ≡ [] }
    ensures completed_keeps { failing server_asked D05 (Open ∷ gets lasting ∷ sends (limiting false (Some 1) None None None) ∷ gets (exactly false 1) ∷ sends (Pubcomp 1 0) ∷ gets (exactly false 2) ∷ Rest ∷ []) ≡ [] }
    ensures refused_before_keeps { failing server_asked D05 (Open ∷ gets lasting ∷ sends (limiting false (Some 1) None None None) ∷ gets (exactly false 1) ∷ sends (Pubrec 1 128) ∷ gets (exactly false 2) ∷ Rest ∷ []) ≡ [] }
    ensures refused_after_keeps { failing server_asked D05 (Open ∷ gets lasting ∷ sends (limiting false (Some 1) None None None) ∷ gets (exactly false 1) ∷ gets (exactly false 2) ∷ sends (Pubrec 1 0) ∷ sends (Pubrec 2 151) ∷ Rest ∷ []) ≡ [] }
    ensures refused_later_breaks { failing server_asked D05 (Open ∷ gets lasting ∷ sends (limiting false (Some 1) None None None) ∷ gets (exactly false 1) ∷ gets (exactly false 2) ∷ Rest ∷ sends (Pubrec 2 151) ∷ Rest ∷ []) ≡ 5 ∷ [] }
    ensures refused_elsewhere_breaks { failing server_asked D05 (Open ∷ gets lasting ∷ sends (limiting false (Some 1) None None None) ∷ gets (exactly false 1) ∷ sends (Pubrec 1 128) ∷ Close ∷ Open ∷ gets lasting ∷ sends (limiting false (Some 1) None None None) ∷ gets (exactly false 2) ∷ gets (exactly false 3) ∷ Rest ∷ []) ≡ 11 ∷ [] }
    ensures refused_before_keeps_too { failing server_asked D05 (Open ∷ gets lasting ∷ sends (limiting false (Some 1) None None None) ∷ gets (exactly false 9) ∷ sends (Pubrec 9 128) ∷ gets (exactly false 1) ∷ gets (exactly false 2) ∷ Rest ∷ []) ≡ [] }
    ensures once_keeps { failing server_asked D05 (Open ∷ gets lasting ∷ sends (limiting false (Some 1) None None None) ∷ gets (once false 1) ∷ gets (once false 2) ∷ Rest ∷ []) ≡ [] }
    ensures once_beside_keeps { failing server_asked D05 (Open ∷ gets lasting ∷ sends (limiting false (Some 1) None None None) ∷ gets (once false 1) ∷ gets (exactly false 2) ∷ gets (once false 3) ∷ Rest ∷ []) ≡ [] }
    ensures at_most_once_keeps { failing server_asked D05 (Open ∷ gets lasting ∷ sends (limiting false (Some 1) None None None) ∷ gets (exactly false 1) ∷ gets at_most_once ∷ Rest ∷ []) ≡ [] }
    ensures resend_keeps { failing server_asked D05 (Open ∷ gets lasting ∷ sends (limiting false (Some 1) None None None) ∷ gets (exactly false 1) ∷ gets (exactly true 1) ∷ Rest ∷ []) ≡ [] }
    ensures resend_breaks { failing server_asked D05 (Open ∷ gets lasting ∷ sends (limiting false (Some 1) None None None) ∷ gets (exactly false 1) ∷ gets (exactly true 2) ∷ Rest ∷ []) ≡ 5 ∷ [] }
    ensures again_breaks { failing server_asked D05 (Open ∷ gets lasting ∷ sends (limiting false (Some 1) None None None) ∷ gets (exactly false 1) ∷ sends (Pubrec 1 0) ∷ gets (Pubrel 1 0) ∷ gets (exactly false 1) ∷ gets (exactly false 2) ∷ Rest ∷ []) ≡ 8 ∷ [] }
    ensures other_release_breaks { failing server_asked D05 (Open ∷ gets lasting ∷ sends (limiting false (Some 1) None None None) ∷ gets (exactly false 1) ∷ gets (Pubrel 3 0) ∷ gets (exactly false 2) ∷ Rest ∷ []) ≡ 6 ∷ [] }
    ensures sent_release_breaks { failing server_asked D05 (Open ∷ gets lasting ∷ sends (limiting false (Some 1) None None None) ∷ gets (exactly false 1) ∷ sends (Pubrel 1 0) ∷ gets (exactly false 2) ∷ Rest ∷ []) ≡ 6 ∷ [] }
    ensures clients_answer_breaks { failing server_asked D05 (Open ∷ gets lasting ∷ sends (limiting false (Some 1) None None None) ∷ gets (exactly false 1) ∷ gets (Pubcomp 1 0) ∷ gets (exactly false 2) ∷ Rest ∷ []) ≡ 6 ∷ [] }
    ensures puback_breaks { failing server_asked D05 (Open ∷ gets lasting ∷ sends (limiting false (Some 1) None None None) ∷ gets (exactly false 1) ∷ sends (Puback 1 0) ∷ gets (exactly false 2) ∷ Rest ∷ []) ≡ 6 ∷ [] }
    ensures before_connack_breaks { failing server_asked D05 (Open ∷ gets lasting ∷ gets (exactly false 1) ∷ sends (limiting false (Some 1) None None None) ∷ gets (exactly false 2) ∷ Rest ∷ []) ≡ 5 ∷ [] }
    ensures both_before_connack_keeps { failing server_asked D05 (Open ∷ gets lasting ∷ gets (exactly false 1) ∷ gets (exactly false 2) ∷ sends (limiting false (Some 1) None None None) ∷ Rest ∷ []) ≡ [] }
    ensures resend_after_connack_breaks { failing server_asked D05 (Open ∷ gets lasting ∷ gets (exactly false 1) ∷ gets (exactly false 2) ∷ sends (limiting false (Some 1) None None None) ∷ gets (exactly true 1) ∷ Rest ∷ []) ≡ 6 ∷ [] }
    ensures greater_maximum_keeps { failing server_asked D05 (Open ∷ gets lasting ∷ sends (limiting false (Some 2) None None None) ∷ gets (exactly false 1) ∷ gets (exactly false 2) ∷ Rest ∷ []) ≡ [] }
    ensures greater_maximum_breaks { failing server_asked D05 (Open ∷ gets lasting ∷ sends (limiting false (Some 2) None None None) ∷ gets (exactly false 1) ∷ gets (exactly false 2) ∷ gets (exactly false 3) ∷ Rest ∷ []) ≡ 6 ∷ [] }
    ensures default_keeps { failing server_asked D05 (Open ∷ gets lasting ∷ sends accepting ∷ gets (exactly false 1) ∷ gets (exactly false 2) ∷ Rest ∷ []) ≡ [] }
    ensures first_connack_counts { failing server_asked D05 (Open ∷ gets lasting ∷ sends (limiting false (Some 1) None None None) ∷ sends (limiting false (Some 9) None None None) ∷ gets (exactly false 1) ∷ gets (exactly false 2) ∷ Rest ∷ []) ≡ 6 ∷ [] }
    ensures clients_maximum_keeps { failing server_asked D05 (Open ∷ gets (asking None None (Some 1) None None) ∷ sends accepting ∷ gets (exactly false 1) ∷ gets (exactly false 2) ∷ Rest ∷ []) ≡ [] }
    ensures next_keeps { failing server_asked D05 (Open ∷ gets lasting ∷ sends (limiting false (Some 1) None None None) ∷ gets (exactly false 1) ∷ Close ∷ Open ∷ gets again ∷ sends (limiting true (Some 1) None None None) ∷ gets (exactly false 2) ∷ Rest ∷ []) ≡ [] }
    ensures anew_breaks { failing server_asked D05 (Open ∷ gets lasting ∷ sends (limiting false (Some 1) None None None) ∷ gets (exactly false 1) ∷ gets (exactly false 2) ∷ Close ∷ Open ∷ gets again ∷ sends (limiting true (Some 1) None None None) ∷ gets (exactly true 1) ∷ gets (exactly true 2) ∷ Rest ∷ []) ≡ 11 ∷ [] }
    ensures second_keeps { failing server_asked D05 (Open ∷ gets lasting ∷ sends (limiting false (Some 1) None None None) ∷ gets (exactly false 1) ∷ gets (exactly false 2) ∷ gets (exactly false 3) ∷ Rest ∷ []) ≡ 5 ∷ [] }
    ensures close_keeps { failing server_asked D05 (Open ∷ gets lasting ∷ sends (limiting false (Some 1) None None None) ∷ gets (exactly false 1) ∷ gets (exactly false 2) ∷ Close ∷ []) ≡ [] }
    ensures goodbye_keeps { failing server_asked D05 (Open ∷ gets lasting ∷ sends (limiting false (Some 1) None None None) ∷ gets (exactly false 1) ∷ gets (exactly false 2) ∷ sends (leaving_by 147) ∷ Rest ∷ []) ≡ [] }
    ensures late_goodbye_breaks { failing server_asked D05 (Open ∷ gets lasting ∷ sends (limiting false (Some 1) None None None) ∷ gets (exactly false 1) ∷ gets (exactly false 2) ∷ Rest ∷ sends (leaving_by 147) ∷ Rest ∷ []) ≡ 5 ∷ [] }
    ensures no_rest_keeps { failing server_asked D05 (Open ∷ gets lasting ∷ sends (limiting false (Some 1) None None None) ∷ Rest ∷ gets (exactly false 1) ∷ gets (exactly false 2) ∷ sends (Pubrec 1 0) ∷ []) ≡ [] }
    ensures left_keeps { failing server_asked D05 (Open ∷ gets lasting ∷ sends (limiting false (Some 1) None None None) ∷ gets (exactly false 1) ∷ gets (leaving None) ∷ gets (exactly false 2) ∷ Rest ∷ []) ≡ [] }
    ensures bytes_keep { failing server_asked D05 (Open ∷ gets lasting ∷ sends (limiting false (Some 1) None None None) ∷ gets (exactly false 1) ∷ gets_bad 52 packets.W14 ∷ Rest ∷ []) ≡ [] }
    ensures unasked_keeps { failing server D05 (Open ∷ gets lasting ∷ sends (limiting false (Some 1) None None None) ∷ gets (exactly false 1) ∷ gets (exactly false 2) ∷ Rest ∷ []) ≡ [] }
    ensures client_keeps { failing client_asked D05 (Open ∷ sends lasting ∷ gets (limiting false (Some 1) None None None) ∷ sends (exactly false 1) ∷ sends (exactly false 2) ∷ Rest ∷ []) ≡ [] }
{}

/// What a server accepts in a CONNECT (F05 and F06), and enhanced authentication (A02).
pub fn further_statements()
    ensures will_qos_breaks { failing server_asked F05 (Open ∷ gets (with_will quality.ExactlyOnce false) ∷ sends (announcing 0 (Some 1) None) ∷ []) ≡ 3 ∷ [] }
    ensures will_qos_keeps { failing server_asked F05 (Open ∷ gets (with_will quality.AtLeastOnce false) ∷ sends (announcing 0 (Some 1) None) ∷ []) ≡ [] }
    ensures will_qos_keeps_refused { failing server_asked F05 (Open ∷ gets (with_will quality.ExactlyOnce false) ∷ sends (announcing 155 (Some 1) None) ∷ []) ≡ [] }
    ensures will_qos_keeps_unasked { failing server F05 (Open ∷ gets (with_will quality.ExactlyOnce false) ∷ sends (announcing 0 (Some 1) None) ∷ []) ≡ [] }
    ensures will_retain_breaks { failing server_asked F06 (Open ∷ gets (with_will quality.AtMostOnce true) ∷ sends (announcing 0 None (Some 0)) ∷ []) ≡ 3 ∷ [] }
    ensures will_retain_keeps { failing server_asked F06 (Open ∷ gets (with_will quality.AtMostOnce false) ∷ sends (announcing 0 None (Some 0)) ∷ []) ≡ [] }
    ensures will_retain_keeps_available { failing server_asked F06 (Open ∷ gets (with_will quality.AtMostOnce true) ∷ sends (announcing 0 None (Some 1)) ∷ []) ≡ [] }
    ensures will_retain_keeps_refused { failing server_asked F06 (Open ∷ gets (with_will quality.AtMostOnce true) ∷ sends (announcing 154 None (Some 0)) ∷ []) ≡ [] }
    ensures method_breaks_client { failing client_asked A02 (Open ∷ sends lasting ∷ gets accepting ∷ sends auth_alone ∷ []) ≡ 4 ∷ [] }
    ensures method_keeps_client { failing client_asked A02 (Open ∷ sends with_method ∷ sends auth_alone ∷ []) ≡ [] }
    ensures method_keeps_before { failing client_asked A02 (Open ∷ sends auth_alone ∷ sends lasting ∷ []) ≡ [] }
    ensures method_breaks_server { failing server_asked A02 (Open ∷ gets lasting ∷ sends naming_method ∷ []) ≡ 3 ∷ [] }
    ensures method_breaks_auth { failing server_asked A02 (Open ∷ gets lasting ∷ sends auth_alone ∷ []) ≡ 3 ∷ [] }
    ensures method_keeps_server { failing server_asked A02 (Open ∷ gets with_method ∷ sends naming_method ∷ []) ≡ [] }
{}

/// That enhanced authentication goes by the method of the CONNECT (A03).
pub fn authentication_by_one_method()
    ensures client_breaks { failing client_asked A03 (Open ∷ sends with_method ∷ gets (auth_by one_method) ∷ sends (auth_by other_method) ∷ []) ≡ 4 ∷ [] }
    ensures client_breaks_without { failing client_asked A03 (Open ∷ sends with_method ∷ gets (auth_by one_method) ∷ sends auth_alone ∷ []) ≡ 4 ∷ [] }
    ensures client_keeps { failing client_asked A03 (Open ∷ sends with_method ∷ gets (auth_by one_method) ∷ sends (auth_by one_method) ∷ []) ≡ [] }
    ensures header_alone_keeps { failing client_asked A03 (Open ∷ sends with_method ∷ gets (auth_by one_method) ∷ sends_sized 2 auth_alone ∷ []) ≡ [] }
    ensures before_keeps { failing client_asked A03 (Open ∷ sends (auth_by other_method) ∷ sends with_method ∷ []) ≡ [] }
    ensures earlier_keeps { failing client_asked A03 (Open ∷ sends with_method ∷ Close ∷ Open ∷ sends (auth_by other_method) ∷ []) ≡ [] }
    ensures without_method_keeps { failing client_asked A03 (Open ∷ sends lasting ∷ sends (auth_by one_method) ∷ []) ≡ [] }
    ensures received_keeps { failing client_asked A03 (Open ∷ sends with_method ∷ gets (auth_by other_method) ∷ gets naming_other ∷ []) ≡ [] }
    ensures server_breaks { failing server_asked A03 (Open ∷ gets with_method ∷ sends naming_other ∷ []) ≡ 3 ∷ [] }
    ensures server_breaks_without { failing server_asked A03 (Open ∷ gets with_method ∷ sends accepting ∷ []) ≡ 3 ∷ [] }
    ensures server_breaks_auth { failing server_asked A03 (Open ∷ gets with_method ∷ sends (auth_by other_method) ∷ []) ≡ 3 ∷ [] }
    ensures server_keeps { failing server_asked A03 (Open ∷ gets with_method ∷ sends (auth_by one_method) ∷ sends naming_method ∷ []) ≡ [] }
    ensures refusing_keeps { failing server_asked A03 (Open ∷ gets with_method ∷ sends refusing ∷ []) ≡ [] }
    ensures first_breaks { failing server_asked A03 (Open ∷ gets with_method ∷ gets lasting ∷ sends accepting ∷ []) ≡ 4 ∷ [] }
    ensures first_keeps { failing server_asked A03 (Open ∷ gets lasting ∷ gets with_method ∷ sends accepting ∷ []) ≡ [] }
    ensures unasked_keeps { failing client A03 (Open ∷ sends with_method ∷ sends auth_alone ∷ []) ≡ [] }
{}

/// What a client asks of a server that announced that it hasn't got this (F01 to F04).
pub fn what_a_server_lacks()
    ensures retain_breaks { failing client_asked F01 (Open ∷ sends lasting ∷ gets (lacking (Some 0) None None None) ∷ sends retained_at_most_once ∷ []) ≡ 4 ∷ [] }
    ensures retain_keeps { failing client_asked F01 (Open ∷ sends lasting ∷ gets (lacking (Some 0) None None None) ∷ sends at_most_once ∷ []) ≡ [] }
    ensures retain_keeps_before { failing client_asked F01 (Open ∷ sends lasting ∷ sends retained_at_most_once ∷ gets (lacking (Some 0) None None None) ∷ []) ≡ [] }
    ensures retain_keeps_again { failing client_asked F01 (Open ∷ sends lasting ∷ gets (lacking (Some 0) None None None) ∷ sends (retained_again 1) ∷ []) ≡ [] }
    ensures retain_keeps_available { failing client_asked F01 (Open ∷ sends lasting ∷ gets (lacking (Some 1) None None None) ∷ sends retained_at_most_once ∷ []) ≡ [] }
    ensures retain_keeps_unasked { failing client F01 (Open ∷ sends lasting ∷ gets (lacking (Some 0) None None None) ∷ sends retained_at_most_once ∷ []) ≡ [] }
    ensures wildcard_breaks { failing client_asked F02 (Open ∷ sends lasting ∷ gets (lacking None (Some 0) None None) ∷ sends asks_widely ∷ []) ≡ 4 ∷ [] }
    ensures wildcard_keeps { failing client_asked F02 (Open ∷ sends lasting ∷ gets (lacking None (Some 0) None None) ∷ sends asks_plainly ∷ []) ≡ [] }
    ensures wildcard_keeps_unsaid { failing client_asked F02 (Open ∷ sends lasting ∷ gets (lacking None None (Some 0) None) ∷ sends asks_widely ∷ []) ≡ [] }
    ensures identifier_breaks { failing client_asked F03 (Open ∷ sends lasting ∷ gets (lacking None None (Some 0) None) ∷ sends asks_identified ∷ []) ≡ 4 ∷ [] }
    ensures identifier_keeps { failing client_asked F03 (Open ∷ sends lasting ∷ gets (lacking None None (Some 0) None) ∷ sends asks_plainly ∷ []) ≡ [] }
    ensures share_breaks { failing client_asked F04 (Open ∷ sends lasting ∷ gets (lacking None None None (Some 0)) ∷ sends asks_to_share ∷ []) ≡ 4 ∷ [] }
    ensures share_keeps { failing client_asked F04 (Open ∷ sends lasting ∷ gets (lacking None None None (Some 0)) ∷ sends asks_plainly ∷ []) ≡ [] }
    ensures share_keeps_before { failing client_asked F04 (Open ∷ sends lasting ∷ sends asks_to_share ∷ gets (lacking None None None (Some 0)) ∷ []) ≡ [] }
{}

/// Shared subscriptions (V03 and V04), and Reason Codes of the other end (V06).
pub fn further_values()
    ensures name_breaks { failing client_asked V03 (Open ∷ sends lasting ∷ gets accepting ∷ sends asks_misnamed ∷ []) ≡ 4 ∷ [] }
    ensures name_keeps { failing client_asked V03 (Open ∷ sends lasting ∷ gets accepting ∷ sends asks_to_share ∷ []) ≡ [] }
    ensures local_breaks { failing client_asked V04 (Open ∷ sends lasting ∷ gets accepting ∷ sends asks_no_local ∷ []) ≡ 4 ∷ [] }
    ensures local_keeps { failing client_asked V04 (Open ∷ sends lasting ∷ gets accepting ∷ sends asks_to_share ∷ []) ≡ [] }
    ensures code_breaks_client { failing client_asked V06 (Open ∷ sends lasting ∷ gets accepting ∷ sends (leaving_by 142) ∷ []) ≡ 4 ∷ [] }
    ensures code_breaks_highest { failing client_asked V06 (Open ∷ sends lasting ∷ gets accepting ∷ sends (leaving_by 162) ∷ []) ≡ 4 ∷ [] }
    ensures code_keeps_client { failing client_asked V06 (Open ∷ sends lasting ∷ gets accepting ∷ sends (leaving_by 4) ∷ []) ≡ [] }
    ensures code_keeps_doubtful { failing client_asked V06 (Open ∷ sends lasting ∷ gets accepting ∷ sends (leaving_by 140) ∷ []) ≡ [] }
    ensures code_breaks_receipt { failing client_asked V06 (Open ∷ sends lasting ∷ gets accepting ∷ gets (once false 1) ∷ sends (Puback 1 16) ∷ []) ≡ 5 ∷ [] }
    ensures code_keeps_receipt { failing client_asked V06 (Open ∷ sends lasting ∷ gets accepting ∷ gets (once false 1) ∷ sends (Puback 1 0) ∷ []) ≡ [] }
    ensures code_breaks_server { failing server_asked V06 (Open ∷ gets lasting ∷ sends accepting ∷ sends (leaving_by 4) ∷ []) ≡ 4 ∷ [] }
    ensures code_keeps_server { failing server_asked V06 (Open ∷ gets lasting ∷ sends accepting ∷ sends (leaving_by 142) ∷ []) ≡ [] }
    ensures code_keeps_receipt_server { failing server_asked V06 (Open ∷ gets lasting ∷ sends accepting ∷ gets (once false 1) ∷ sends (Puback 1 16) ∷ []) ≡ [] }
{}
