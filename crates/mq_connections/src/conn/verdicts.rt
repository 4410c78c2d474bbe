//! Whether a statement is false at the next event of a connection, by what is kept of the
//! connection.
ghost use Rattle.std.specs.Prelude.{◌≡◌, ◌==◌, ◌&&◌, ◌||◌, Some, not, unwrap_or};
ghost use Rattle.mq_packet.specs.declared.packet.PacketType.TheVariants as types;
ghost use Rattle.mq_rules.specs.Words.{is_id, is_some_and};
ghost use Rattle.mq_rules.specs.declared.role.Role.TheVariants as roles;
ghost use Rattle.mq_rules.specs.Notes.{may_explain, resumed_by};
ghost use Rattle.mq_connections.specs.Finding as finding;

use mq_packet::PacketType;
use mq_rules::{
    ConnackNote, ConnectionState, DisconnectNote, ItemNote, PacketNote, PublishNote, Role, Rule,
    qos_number,
};

/// A statement, and whether it is false at the event.
pub type Verdict = (Rule, bool);

// Of what is sent: a packet, or bytes that break a rule.

/// The statements on what a client sends.
#[inline]
pub fn client_item(state: &ConnectionState, item: &ItemNote) -> [Verdict; 4]
    ensures { result ≡ finding.item_verdicts roles.Client state.now (Some item.now) }
{
    [
        (Rule::C01, is_foreign_to_client(item)),
        (Rule::C02, breaks_c02(state, item)),
        (Rule::C03, breaks_c03(state, item)),
        (Rule::C11, breaks_c11(state, item)),
    ]
}

/// The statements on what a server sends.
#[inline]
pub fn server_item(state: &ConnectionState, item: &ItemNote) -> [Verdict; 6]
    ensures { result ≡ finding.item_verdicts roles.Server state.now (Some item.now) }
{
    [
        (Rule::C01, is_foreign_to_server(item)),
        (Rule::C04, breaks_c04(state, item)),
        (Rule::C05, breaks_c05(state, item)),
        (Rule::C06, breaks_c06(state, item)),
        (Rule::C11, breaks_c11(state, item)),
        (Rule::C12, breaks_c12(state, item)),
    ]
}

// C02: a client begins with something other than a CONNECT.
fn breaks_c02(state: &ConnectionState, item: &ItemNote) -> bool
    ensures { result ≡ finding.finds_C02 state.now (Some item.now) }
{
    item.is_typed() && !item.is_of_type(PacketType::Connect) && !state.has_sent
}

// C03: a CONNECT is sent after another one.
fn breaks_c03(state: &ConnectionState, item: &ItemNote) -> bool
    ensures { result ≡ finding.finds_C03 state.now (Some item.now) }
{
    item.is_of_type(PacketType::Connect) && state.has_sent_connect
}

// C04: a CONNACK is sent, and no CONNECT was received.
fn breaks_c04(state: &ConnectionState, item: &ItemNote) -> bool
    ensures { result ≡ finding.finds_C04 state.now (Some item.now) }
{
    item.is_of_type(PacketType::Connack) && !state.has_received_connect
}

// C05: something other than an AUTH is sent before the CONNACK.
fn breaks_c05(state: &ConnectionState, item: &ItemNote) -> bool
    ensures { result ≡ finding.finds_C05 state.now (Some item.now) }
{
    item.is_typed() && !may_be_first(item) && !state.has_sent_connack
}

// C06: a CONNACK is sent after another one.
fn breaks_c06(state: &ConnectionState, item: &ItemNote) -> bool
    ensures { result ≡ finding.finds_C06 state.now (Some item.now) }
{
    item.is_of_type(PacketType::Connack) && state.has_sent_connack
}

// C11: something is sent after a DISCONNECT.
fn breaks_c11(state: &ConnectionState, item: &ItemNote) -> bool
    ensures { result ≡ finding.finds_C11 state.now (Some item.now) }
{
    item.is_typed() && state.has_sent_disconnect
}

// C12: something is sent after a CONNACK that refuses.
fn breaks_c12(state: &ConnectionState, item: &ItemNote) -> bool
    ensures { result ≡ finding.finds_C12 state.now (Some item.now) }
{
    item.is_typed() && state.has_sent_refusal
}

// Whether the item has a type that only a server sends.
fn is_foreign_to_client(item: &ItemNote) -> bool
    ensures { result ≡ finding.finds_C01 roles.Client (Some item.now) }
{
    item.is_of_type(PacketType::Connack)
        || item.is_of_type(PacketType::Suback)
        || item.is_of_type(PacketType::Unsuback)
        || item.is_of_type(PacketType::Pingresp)
}

// Whether the item has a type that only a client sends.
fn is_foreign_to_server(item: &ItemNote) -> bool
    ensures { result ≡ finding.finds_C01 roles.Server (Some item.now) }
{
    item.is_of_type(PacketType::Connect)
        || item.is_of_type(PacketType::Subscribe)
        || item.is_of_type(PacketType::Unsubscribe)
        || item.is_of_type(PacketType::Pingreq)
}

// Whether a server may send the item before its CONNACK.
fn may_be_first(item: &ItemNote) -> bool
    ensures { result ≡ (finding.is_type types.Connack (Some item.now) || finding.is_type types.Auth (Some item.now)) }
{
    item.is_of_type(PacketType::Connack) || item.is_of_type(PacketType::Auth)
}

// Of a packet that is sent.

/// The statements on any packet that a client sends.
#[inline]
pub fn client_packet(state: &ConnectionState, packet: &PacketNote) -> [Verdict; 2]
    ensures { result ≡ finding.packet_verdicts roles.Client state.now (Some packet.now) }
{
    [
        (Rule::C13, breaks_c13(state, packet)),
        (Rule::C14, breaks_c14(state, Role::Client, packet)),
    ]
}

/// The statements on any packet that a server sends.
#[inline]
pub fn server_packet(state: &ConnectionState, packet: &PacketNote) -> [Verdict; 2]
    ensures { result ≡ finding.packet_verdicts roles.Server state.now (Some packet.now) }
{
    [
        (Rule::C14, breaks_c14(state, Role::Server, packet)),
        (Rule::C21, breaks_c21(state, packet)),
    ]
}

// C13: the client goes on with a session that should not have been resumed.
fn breaks_c13(state: &ConnectionState, packet: &PacketNote) -> bool
    ensures { result ≡ finding.finds_C13 state.now (Some packet.now) }
{
    packet.fields.disconnect().is_none() && is_resumed(state) && is_not_to_be_resumed(state)
}

/// Whether the CONNACK resumed a session.
pub(super) fn is_resumed(state: &ConnectionState) -> bool
    ensures { result ≡ is_some_and resumed_by state.now.connack }
{
    match state.connack {
        Some(connack) => connack.resumes(),
        None => false,
    }
}

/// Whether there was no session to be resumed: the CONNECT had Clean Start 1, or the session
/// wasn't alive.
pub(super) fn is_not_to_be_resumed(state: &ConnectionState) -> bool
    ensures { result ≡ (is_some_and (λ c. c.clean_start) state.now.connect || not state.now.was_alive) }
{
    has_clean_start(state) || !state.was_alive
}

// Whether the CONNECT had Clean Start 1.
pub(super) fn has_clean_start(state: &ConnectionState) -> bool
    ensures { result ≡ is_some_and (λ c. c.clean_start) state.now.connect }
{
    match state.connect {
        Some(connect) => connect.clean_start,
        None => false,
    }
}

// C14: a packet is larger than the peer's Maximum Packet Size.
fn breaks_c14(state: &ConnectionState, role: Role, packet: &PacketNote) -> bool
    ensures { result ≡ finding.finds_C14 role state.now (Some packet.now) }
{
    match size_limit(state, role) {
        Some(most) => most < packet.size,
        None => false,
    }
}

/// The peer's Maximum Packet Size, in bytes.
pub(super) fn size_limit(state: &ConnectionState, role: Role) -> Option<u32>
    ensures { result ≡ finding.size_limit role state.now }
{
    match role {
        Role::Client => state
            .connack
            .and_then(|connack| connack.maximum_packet_size),
        Role::Server => state
            .connect
            .and_then(|connect| connect.maximum_packet_size),
    }
}

// C21: a Reason String or a User Property is sent that the client asked not to get.
fn breaks_c21(state: &ConnectionState, packet: &PacketNote) -> bool
    ensures { result ≡ finding.finds_C21 state.now (Some packet.now) }
{
    explains(packet) && wants_no_problem_information(state)
}

// Whether the CONNECT had a Request Problem Information of 0.
pub(super) fn wants_no_problem_information(state: &ConnectionState) -> bool
    ensures { result ≡ is_some_and (λ c. is_id 0 c.request_problem_information) state.now.connect }
{
    match state.connect {
        Some(connect) => connect.request_problem_information == Some(0),
        None => false,
    }
}

// Whether a packet has a Reason String or a User Property that a client can ask not to get.
fn explains(packet: &PacketNote) -> bool
    ensures { result ≡ ((packet.now.has_reason_string || packet.now.has_user_property) && not (may_explain packet.now.fields)) }
{
    has_explanation(packet) && !packet.fields.may_explain()
}

/// Whether a packet has a Reason String or a User Property.
#[inline]
pub(super) fn has_explanation(packet: &PacketNote) -> bool
    ensures { result ≡ (packet.now.has_reason_string || packet.now.has_user_property) }
{
    packet.has_reason_string || packet.has_user_property
}

// Of a PUBLISH that is sent.

/// C15, for a tested end of this role.
pub fn breaks_c15(state: &ConnectionState, role: Role, publish: &PublishNote) -> bool
    ensures { result ≡ finding.finds_C15 role state.now (Some publish.now) }
{
    match publish.topic_alias {
        Some(alias) => may_look(state, role) && alias_limit(state, role) < alias,
        None => false,
    }
}

// Whether the end may look at what the peer announced: a client after its CONNACK, a server at
// once.
pub(super) fn may_look(state: &ConnectionState, role: Role) -> bool
    ensures { result ≡ finding.may_look role state.now }
{
    match role {
        Role::Client => state.connack.is_some(),
        Role::Server => true,
    }
}

// The peer's Topic Alias Maximum.
fn alias_limit(state: &ConnectionState, role: Role) -> u16
    ensures { result ≡ finding.alias_limit role state.now }
{
    let announced = match role {
        Role::Client => state
            .connack
            .and_then(|connack| connack.topic_alias_maximum),
        Role::Server => state
            .connect
            .and_then(|connect| connect.topic_alias_maximum),
    };
    announced.unwrap_or(0)
}

/// C17.
pub fn breaks_c17(state: &ConnectionState, publish: &PublishNote) -> bool
    ensures { result ≡ finding.finds_C17 state.now (Some publish.now) }
{
    qos_limit(state) < qos_number(publish.qos)
}

/// The server's Maximum QoS.
pub(super) fn qos_limit(state: &ConnectionState) -> u8
    ensures { result ≡ finding.qos_limit state.now }
{
    let announced = state.connack.and_then(|connack| connack.maximum_qos);
    announced.unwrap_or(2)
}

// Of a CONNACK that a server sends.

/// The statements on a CONNACK that a server sends.
pub fn server_connack(state: &ConnectionState, connack: &ConnackNote) -> [Verdict; 5]
    ensures { result ≡ finding.connack_verdicts roles.Server state.now (Some connack.now) }
{
    [
        (Rule::C07, breaks_c07(state, connack)),
        (Rule::C08, breaks_c08(state, connack)),
        (Rule::C09, breaks_c09(connack)),
        (Rule::C10, breaks_c10(state, connack)),
        (Rule::C22, breaks_c22(state, connack)),
    ]
}

// C07: Session Present is 1, and the CONNECT had Clean Start 1.
fn breaks_c07(state: &ConnectionState, connack: &ConnackNote) -> bool
    ensures { result ≡ finding.finds_C07 state.now (Some connack.now) }
{
    connack.session_present && has_clean_start(state)
}

// C08: a session is resumed, and none was alive.
fn breaks_c08(state: &ConnectionState, connack: &ConnackNote) -> bool
    ensures { result ≡ finding.finds_C08 state.now (Some connack.now) }
{
    connack.session_present && connack.code == 0 && !state.was_alive
}

// C10: a client without a Client Identifier is accepted, and isn't assigned one.
fn breaks_c10(state: &ConnectionState, connack: &ConnackNote) -> bool
    ensures { result ≡ finding.finds_C10 state.now (Some connack.now) }
{
    connack.code == 0 && !connack.has_assigned_identifier && is_unnamed(state)
}

// Whether the CONNECT had an empty Client Identifier.
pub(super) fn is_unnamed(state: &ConnectionState) -> bool
    ensures { result ≡ is_some_and (λ c. c.is_unnamed) state.now.connect }
{
    match state.connect {
        Some(connect) => connect.is_unnamed,
        None => false,
    }
}

// C22: Response Information is sent that the client didn't ask for.
fn breaks_c22(state: &ConnectionState, connack: &ConnackNote) -> bool
    ensures { result ≡ finding.finds_C22 state.now (Some connack.now) }
{
    connack.has_response_information && wants_no_response_information(state)
}

// Whether the CONNECT had no Request Response Information of 1.
fn wants_no_response_information(state: &ConnectionState) -> bool
    ensures { result ≡ is_some_and (λ c. not (is_id 1 c.request_response_information)) state.now.connect }
{
    match state.connect {
        Some(connect) => connect.request_response_information != Some(1),
        None => false,
    }
}

// C09: a CONNACK that refuses has Session Present 1.
fn breaks_c09(connack: &ConnackNote) -> bool
    ensures { result ≡ finding.finds_C09 (Some connack.now) }
{
    connack.session_present && connack.code != 0
}

/// C19, of a DISCONNECT that a server sends.
pub fn breaks_c19(disconnect: DisconnectNote) -> bool
    ensures { result ≡ finding.finds_C19 (Some disconnect) }
{
    disconnect.session_expiry.is_some()
}

// Of a DISCONNECT that is sent, and of a REST.

/// C20.
pub fn breaks_c20(state: &ConnectionState, disconnect: DisconnectNote) -> bool
    ensures { result ≡ finding.finds_C20 state.now (Some disconnect) }
{
    disconnect.session_expiry.unwrap_or(0) != 0 && expires_at_once(state)
}

// Whether the CONNECT had a Session Expiry Interval of 0, or none.
fn expires_at_once(state: &ConnectionState) -> bool
    ensures { result ≡ is_some_and (λ c. unwrap_or c.session_expiry 0 == 0) state.now.connect }
{
    match state.connect {
        Some(connect) => connect.session_expiry.unwrap_or(0) == 0,
        None => false,
    }
}

/// C23; the flag says whether the event is a REST.
pub fn breaks_c23(state: &ConnectionState, role: Role, is_rest: bool) -> bool
    ensures { result ≡ finding.finds_C23 role state.now is_rest }
{
    is_rest && has_left(state, role)
}

// Whether the end sent something after which it must close the connection: a DISCONNECT, or as
// a server a CONNACK that refuses.
pub(super) fn has_left(state: &ConnectionState, role: Role) -> bool
    ensures { result ≡ finding.has_left role state.now }
{
    match role {
        Role::Client => state.has_sent_disconnect,
        Role::Server => state.has_sent_disconnect || state.has_sent_refusal,
    }
}
