//! What the line on a fault says before the fault's reason, for each statement: its code, its
//! citation and its sentence, written from `docs/STATEMENTS.md`.
use mq_rules::{Role, Rule};

/// The tested end of a log with a fault of this statement: a client for what binds only clients,
/// else a server.
pub fn role_of(rule: Rule) -> Role {
    match rule {
        Rule::C02
        | Rule::C03
        | Rule::C13
        | Rule::C17
        | Rule::C18
        | Rule::C20
        | Rule::S05
        | Rule::E1O
        | Rule::E2O
        | Rule::E3O
        | Rule::K01 => Role::Client,
        _ => Role::Server,
    }
}

/// What such a fault's line says of it.
#[rattlefmt::skip]
pub fn line_of(rule: Rule) -> &'static str {
    match rule {
        Rule::W01 => "W01 MQTT-2.1.3-1 The flags of a packet other than PUBLISH are those of its type.",
        Rule::W02 => "W02 sec-2.1.2 The type isn't 0.",
        Rule::W03 => "W03 MQTT-1.5.5-1 A Variable Byte Integer has at most four bytes, and no more than it needs.",
        Rule::W04 => "W04 MQTT-1.5.4-1 A text is well-formed UTF-8.",
        Rule::W05 => "W05 MQTT-1.5.4-2 A text doesn't contain U+0000.",
        Rule::W06 => "W06 sec-2.1.4 Each field ends within its packet or list, and no bytes are left over.",
        Rule::W07 => "W07 MQTT-3.3.1-4 The QoS of a PUBLISH isn't 3.",
        Rule::W08 => "W08 MQTT-3.3.1-2 DUP is 0 in a PUBLISH of QoS 0.",
        Rule::W09 => "W09 sec-2.2.1 A Packet Identifier isn't 0.",
        Rule::W10 => "W10 sec-2.2.2.2 A property is known, and allowed in its list.",
        Rule::W11 => "W11 sec-2.2.2.2 No property is repeated in a list, except those that may be.",
        Rule::W12 => "W12 sec-2.2.2.2 The value of a property is in its range.",
        Rule::W13 => "W13 sec-2.4 A Reason Code is one that its packet may have.",
        Rule::W14 => "W14 sec-3.3.2 A Topic Name, and the Response Topic of a PUBLISH, has no wildcard.",
        Rule::W15 => "W15 sec-4.7 A Topic Filter is valid.",
        Rule::W16 => "W16 MQTT-3.8.3-2,MQTT-3.10.3-2 A SUBSCRIBE or UNSUBSCRIBE has at least one filter.",
        Rule::W17 => "W17 sec-3.8.3 The Subscription Options have neither Maximum QoS 3 nor Retain Handling 3, and no reserved bit is set.",
        Rule::W18 => "W18 sec-3.1.2 The Protocol Name is `MQTT`.",
        Rule::W19 => "W19 sec-3.1.2 The Connect Flags have no reserved bit set, no Will QoS 3, and no Will QoS or Will Retain without a Will.",
        Rule::W20 => "W20 MQTT-3.2.2-1 The Connect Acknowledge Flags have no reserved bit set.",
        Rule::W21 => "W21 sec-3.3.2 A PUBLISH has a Topic Name or a Topic Alias.",
        Rule::C01 => "C01 sec-2.1.2 A packet has a type that this end may send.",
        Rule::C02 => "C02 MQTT-3.1.0-1 The first packet that a client sends on a connection is a CONNECT.",
        Rule::C03 => "C03 sec-3.1 A client sends only one CONNECT on a connection.",
        Rule::C04 => "C04 sec-3.2 A server sends a CONNACK only after a CONNECT was received.",
        Rule::C05 => "C05 MQTT-3.2.0-1 Before its CONNACK a server sends no packet other than AUTH.",
        Rule::C06 => "C06 MQTT-3.2.0-2 A server sends only one CONNACK on a connection.",
        Rule::C07 => "C07 MQTT-3.2.2-2 Session Present is 0 if Clean Start was 1.",
        Rule::C08 => "C08 MQTT-3.2.2-3 Session Present is 1 only if the server has a session.",
        Rule::C09 => "C09 MQTT-3.2.2-6 Session Present is 0 in a CONNACK that refuses.",
        Rule::C10 => "C10 MQTT-3.2.2-16 A client whose Client Identifier was empty is assigned one.",
        Rule::C11 => "C11 MQTT-3.14.4-1 After a DISCONNECT no packet is sent, and no bytes that break a rule.",
        Rule::C12 => "C12 MQTT-3.2.2-7 After a CONNACK that refuses a server sends no packet, and no bytes that break a rule.",
        Rule::C13 => "C13 MQTT-3.2.2-4 A client without a session doesn't resume one: after Session Present 1 it sends only a DISCONNECT.",
        Rule::C14 => "C14 MQTT-3.1.2-24 A packet isn't larger than the peer's Maximum Packet Size.",
        Rule::C15 => "C15 MQTT-3.1.2-26 A Topic Alias isn't above the peer's Topic Alias Maximum.",
        Rule::C16 => "C16 sec-3.3.2 A Topic Alias that stands for a Topic Name was set on this connection.",
        Rule::C17 => "C17 MQTT-3.2.2-11 A PUBLISH isn't sent at a QoS above the server's Maximum QoS.",
        Rule::C18 => "C18 MQTT-3.3.4-6 A client sends no Subscription Identifier in a PUBLISH.",
        Rule::C19 => "C19 MQTT-3.14.2-2 A server sends no Session Expiry Interval in a DISCONNECT.",
        Rule::C20 => "C20 sec-3.14.2 A DISCONNECT doesn't change a Session Expiry Interval of 0.",
        Rule::C21 => "C21 MQTT-3.1.2-29 A client that asked for none gets a Reason String or User Property only in a PUBLISH, CONNACK or DISCONNECT.",
        Rule::C22 => "C22 MQTT-3.1.2-28 Response Information is sent only if the client asked for it.",
        Rule::C23 => "C23 MQTT-3.14.4-2,MQTT-3.2.2-7 An end that sent a DISCONNECT, or a CONNACK that refuses, closes the connection.",
        Rule::S01 => "S01 MQTT-2.2.1-4 A new PUBLISH, SUBSCRIBE or UNSUBSCRIBE takes no Packet Identifier that is in use.",
        Rule::S02 => "S02 MQTT-4.3.2-2,MQTT-4.3.3-2 A PUBLISH with DUP 1 was sent before, and isn't acknowledged in its session.",
        Rule::S03 => "S03 MQTT-4.4.0-1 A PUBLISH isn't sent again on the same connection.",
        Rule::S04 => "S04 MQTT-4.3.3-6 A PUBLISH isn't sent again once its PUBREL was sent.",
        Rule::S05 => "S05 MQTT-4.6.0-1 A client sends PUBLISHes again in their original order.",
        Rule::S06 => "S06 MQTT-4.4.0-1 Unacknowledged packets are sent again when a session is resumed.",
        Rule::S07 => "S07 MQTT-4.9.0-2 No more PUBLISHes are in flight than the peer's Receive Maximum.",
        Rule::E1A => "E1A MQTT-2.2.1-5 A PUBACK answers a PUBLISH of QoS 1.",
        Rule::E1R => "E1R MQTT-4.3.2-4 A PUBLISH of QoS 1 is answered by a PUBACK.",
        Rule::E1O => "E1O MQTT-4.6.0-2 A client sends PUBACKs in the order of the PUBLISHes.",
        Rule::E2A => "E2A MQTT-2.2.1-5 A PUBREC answers a PUBLISH of QoS 2.",
        Rule::E2R => "E2R MQTT-4.3.3-8 A PUBLISH of QoS 2 is answered by a PUBREC.",
        Rule::E2O => "E2O MQTT-4.6.0-3 A client sends PUBRECs in the order of the PUBLISHes.",
        Rule::E3A => "E3A MQTT-2.2.1-5 A PUBREL answers a PUBREC that accepts.",
        Rule::E3R => "E3R MQTT-4.3.3-4 A PUBREC that accepts is answered by a PUBREL.",
        Rule::E3O => "E3O MQTT-4.6.0-4 A client sends PUBRELs in the order of the PUBRECs.",
        Rule::E4A => "E4A MQTT-2.2.1-5 A PUBCOMP answers a PUBREL.",
        Rule::E4R => "E4R MQTT-4.3.3-11 A PUBREL is answered by a PUBCOMP.",
        Rule::E5A => "E5A MQTT-2.2.1-6 A SUBACK answers a SUBSCRIBE.",
        Rule::E5R => "E5R MQTT-3.8.4-1 A SUBSCRIBE is answered by a SUBACK.",
        Rule::E6A => "E6A MQTT-2.2.1-6 An UNSUBACK answers an UNSUBSCRIBE.",
        Rule::E6R => "E6R MQTT-3.10.4-4 An UNSUBSCRIBE is answered by an UNSUBACK.",
        Rule::E7R => "E7R MQTT-3.12.4-1 A PINGREQ is answered by a PINGRESP.",
        Rule::L1 => "L1 sec-4.3.3 Only a QoS 2 message that was received, and whose exchange isn't over, is released.",
        Rule::L2 => "L2 MQTT-4.3.3-10 A QoS 2 message is released once.",
        Rule::L3 => "L3 sec-4.3.3 A QoS 2 message is released before its PUBCOMP.",
        Rule::B01 => "B01 MQTT-3.3.2-3 A PUBLISH from the server matches a subscription.",
        Rule::B02 => "B02 MQTT-3.8.4-8 A PUBLISH from the server isn't at a QoS above what was granted.",
        Rule::B03 => "B03 MQTT-3.8.4-6 A SUBACK has a Reason Code for each filter.",
        Rule::B04 => "B04 sec-3.11.3 An UNSUBACK has a Reason Code for each filter.",
        Rule::B05 => "B05 sec-3.9.3 A SUBACK grants no more than was asked for.",
        Rule::B06 => "B06 MQTT-3.10.4-1 No UNSUBACK says of a subscription that it doesn't exist.",
        Rule::B07 => "B07 sec-3.11.3 No UNSUBACK says that a filter was deleted which was never subscribed.",
        Rule::B08 => "B08 MQTT-3.3.2-3 A PUBLISH from the server matches a subscription, where some are shared.",
        Rule::B09 => "B09 MQTT-3.8.4-8,MQTT-4.8.2-3 A PUBLISH isn't at a QoS above what was granted, where some are shared.",
        Rule::P01 => "P01 sec-3.3.4 A Subscription Identifier of a PUBLISH is that of a matching subscription.",
        Rule::P02 => "P02 MQTT-3.3.4-3 A PUBLISH has a Subscription Identifier, if each matching subscription has.",
        Rule::R01 => "R01 MQTT-3.3.1-11,MQTT-3.3.1-12 RETAIN is 0 where no matching subscription asks for anything else.",
        Rule::R02 => "R02 sec-4.8.2 No retained message is sent for a shared subscription.",
        Rule::K01 => "K01 MQTT-3.1.2-20,MQTT-3.2.2-21 A client isn't silent for longer than the Keep Alive.",
        Rule::K02 => "K02 MQTT-3.1.2-22,MQTT-3.2.2-22 A server closes the connection of a client that is silent.",
        _ => "",
    }
}
