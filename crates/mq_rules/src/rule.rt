//! The chosen statements of MQTT 5.0.
ghost use Rattle.std.specs.Prelude.{◌≡◌};
ghost use Rattle.mq_rules.specs.Statements.{statement, on_bytes};
ghost use Rattle.mq_rules.specs.declared.role.Role.{Role};

use mq_packet::PacketRule;

/// A chosen statement of MQTT 5.0, by its code, in the order of reports.
#[derive(Clone, Copy, Debug, PartialEq, Eq, PartialOrd, Ord)]
pub enum Rule {
    /// The flags of a packet other than PUBLISH are those of its type (MQTT 5.0, section 2.1.3).
    W01,
    /// The type isn't 0 (MQTT 5.0, section 2.1.2).
    W02,
    /// A Variable Byte Integer has at most four bytes, and no more than it needs (MQTT 5.0, section
    /// 1.5.5).
    W03,
    /// A text is well-formed UTF-8 (MQTT 5.0, section 1.5.4).
    W04,
    /// A text doesn't contain U+0000 (MQTT 5.0, section 1.5.4).
    W05,
    /// Each field ends within its packet or list, and no bytes are left over (MQTT 5.0, section
    /// 2.1.4).
    W06,
    /// The QoS of a PUBLISH isn't 3 (MQTT 5.0, section 3.3.1.2).
    W07,
    /// DUP is 0 in a PUBLISH of QoS 0 (MQTT 5.0, section 3.3.1.1).
    W08,
    /// A Packet Identifier isn't 0 (MQTT 5.0, section 2.2.1).
    W09,
    /// A property is known, and allowed in its list (MQTT 5.0, section 2.2.2.2).
    W10,
    /// No property is repeated in a list, except those that may be (MQTT 5.0, section 2.2.2.2).
    W11,
    /// The value of a property is in its range (MQTT 5.0, section 2.2.2.2).
    W12,
    /// A Reason Code is one that its packet may have (MQTT 5.0, section 2.4).
    W13,
    /// A Topic Name, and the Response Topic of a PUBLISH, has no wildcard (MQTT 5.0, section
    /// 3.3.2).
    W14,
    /// A Topic Filter is valid (MQTT 5.0, section 4.7).
    W15,
    /// A SUBSCRIBE or UNSUBSCRIBE has at least one filter (MQTT 5.0, sections 3.8.3 and 3.10.3).
    W16,
    /// The Subscription Options have neither Maximum QoS 3 nor Retain Handling 3, and no reserved
    /// bit is set (MQTT 5.0, section 3.8.3.1).
    W17,
    /// The Protocol Name is `MQTT` (MQTT 5.0, section 3.1.2.1).
    W18,
    /// The Connect Flags have no reserved bit set, no Will QoS 3, and no Will QoS or Will Retain
    /// without a Will (MQTT 5.0, section 3.1.2.3).
    W19,
    /// The Connect Acknowledge Flags have no reserved bit set (MQTT 5.0, section 3.2.2.1).
    W20,
    /// A PUBLISH has a Topic Name or a Topic Alias (MQTT 5.0, section 3.3.2).
    W21,
    /// A packet has a type that this end may send (MQTT 5.0, section 2.1.2).
    C01,
    /// The first packet that a client sends on a connection is a CONNECT (MQTT 5.0, section 3.1).
    C02,
    /// A client sends only one CONNECT on a connection (MQTT 5.0, section 3.1).
    C03,
    /// A server sends a CONNACK only after a CONNECT was received (MQTT 5.0, section 3.2).
    C04,
    /// Before its CONNACK a server sends no packet other than AUTH (MQTT 5.0, section 3.2).
    C05,
    /// A server sends only one CONNACK on a connection (MQTT 5.0, section 3.2).
    C06,
    /// Session Present is 0 if Clean Start was 1 (MQTT 5.0, section 3.2.2.1.1).
    C07,
    /// Session Present is 1 only if the server has a session (MQTT 5.0, section 3.2.2.1.1).
    C08,
    /// Session Present is 0 in a CONNACK that refuses (MQTT 5.0, section 3.2.2.1.1).
    C09,
    /// A client whose Client Identifier was empty is assigned one (MQTT 5.0, section 3.2.2.3.7).
    C10,
    /// After a DISCONNECT no packet is sent, and no bytes that break a rule (MQTT 5.0, section
    /// 3.14.4).
    C11,
    /// After a CONNACK that refuses a server sends no packet, and no bytes that break a rule (MQTT
    /// 5.0, section 3.2.2.2).
    C12,
    /// A client without a session doesn't resume one: after Session Present 1 it sends only a
    /// DISCONNECT (MQTT 5.0, section 3.2.2.1.1).
    C13,
    /// A packet isn't larger than the peer's Maximum Packet Size (MQTT 5.0, sections 3.1.2.11.4
    /// and 3.2.2.3.6).
    C14,
    /// A Topic Alias isn't above the peer's Topic Alias Maximum (MQTT 5.0, sections 3.1.2.11.5
    /// and 3.2.2.3.8).
    C15,
    /// A Topic Alias that stands for a Topic Name was set on this connection (MQTT 5.0, section
    /// 3.3.2.3.4).
    C16,
    /// A PUBLISH isn't sent at a QoS above the server's Maximum QoS (MQTT 5.0, section
    /// 3.2.2.3.4).
    C17,
    /// A client sends no Subscription Identifier in a PUBLISH (MQTT 5.0, section 3.3.4).
    C18,
    /// A server sends no Session Expiry Interval in a DISCONNECT (MQTT 5.0, section 3.14.2.2.2).
    C19,
    /// A DISCONNECT doesn't change a Session Expiry Interval of 0 (MQTT 5.0, section 3.14.2.2.2).
    C20,
    /// A client that asked for none gets a Reason String or User Property only in a PUBLISH,
    /// CONNACK or DISCONNECT (MQTT 5.0, section 3.1.2.11.7).
    C21,
    /// Response Information is sent only if the client asked for it (MQTT 5.0, section 3.1.2.11.6).
    C22,
    /// An end that sent a DISCONNECT, or a CONNACK that refuses, closes the connection (MQTT 5.0,
    /// sections 3.14.4 and 3.2.2.2).
    C23,
    /// A new PUBLISH, SUBSCRIBE or UNSUBSCRIBE takes no Packet Identifier that is in use (MQTT
    /// 5.0, section 2.2.1).
    S01,
    /// A PUBLISH with DUP 1 was sent before, and isn't acknowledged in its session (MQTT 5.0,
    /// sections 4.3.2 and 4.3.3).
    S02,
    /// A PUBLISH isn't sent again on the same connection (MQTT 5.0, section 4.4).
    S03,
    /// A PUBLISH isn't sent again once its PUBREL was sent (MQTT 5.0, section 4.3.3).
    S04,
    /// A client sends PUBLISHes again in their original order (MQTT 5.0, section 4.6).
    S05,
    /// Unacknowledged packets are sent again when a session is resumed (MQTT 5.0, section 4.4).
    S06,
    /// No more PUBLISHes are in flight than the peer's Receive Maximum (MQTT 5.0, section 4.9).
    S07,
    /// A PUBACK answers a PUBLISH of QoS 1 (MQTT 5.0, section 2.2.1).
    E1A,
    /// A PUBLISH of QoS 1 is answered by a PUBACK (MQTT 5.0, section 4.3.2).
    E1R,
    /// A client sends PUBACKs in the order of the PUBLISHes (MQTT 5.0, section 4.6).
    E1O,
    /// A PUBREC answers a PUBLISH of QoS 2 (MQTT 5.0, section 2.2.1).
    E2A,
    /// A PUBLISH of QoS 2 is answered by a PUBREC (MQTT 5.0, section 4.3.3).
    E2R,
    /// A client sends PUBRECs in the order of the PUBLISHes (MQTT 5.0, section 4.6).
    E2O,
    /// A PUBREL answers a PUBREC that accepts (MQTT 5.0, section 2.2.1).
    E3A,
    /// A PUBREC that accepts is answered by a PUBREL (MQTT 5.0, section 4.3.3).
    E3R,
    /// A client sends PUBRELs in the order of the PUBRECs (MQTT 5.0, section 4.6).
    E3O,
    /// A PUBCOMP answers a PUBREL (MQTT 5.0, section 2.2.1).
    E4A,
    /// A PUBREL is answered by a PUBCOMP (MQTT 5.0, section 4.3.3).
    E4R,
    /// A SUBACK answers a SUBSCRIBE (MQTT 5.0, section 2.2.1).
    E5A,
    /// A SUBSCRIBE is answered by a SUBACK (MQTT 5.0, section 3.8.4).
    E5R,
    /// An UNSUBACK answers an UNSUBSCRIBE (MQTT 5.0, section 2.2.1).
    E6A,
    /// An UNSUBSCRIBE is answered by an UNSUBACK (MQTT 5.0, section 3.10.4).
    E6R,
    /// A PINGREQ is answered by a PINGRESP (MQTT 5.0, section 3.12.4).
    E7R,
    /// Only a QoS 2 message that was received, and whose exchange isn't over, is released (MQTT
    /// 5.0, section 4.3.3).
    L1,
    /// A QoS 2 message is released once (MQTT 5.0, section 4.3.3).
    L2,
    /// A QoS 2 message is released before its PUBCOMP (MQTT 5.0, section 4.3.3).
    L3,
    /// A PUBLISH from the server matches a subscription (MQTT 5.0, section 3.3.2.1).
    B01,
    /// A PUBLISH from the server isn't at a QoS above what was granted (MQTT 5.0, section 3.8.4).
    B02,
    /// A SUBACK has a Reason Code for each filter (MQTT 5.0, section 3.8.4).
    B03,
    /// An UNSUBACK has a Reason Code for each filter (MQTT 5.0, section 3.11.3).
    B04,
    /// A SUBACK grants no more than was asked for (MQTT 5.0, section 3.9.3).
    B05,
    /// No UNSUBACK says of a subscription that it doesn't exist (MQTT 5.0, section 3.10.4).
    B06,
    /// No UNSUBACK says that a filter was deleted which was never subscribed (MQTT 5.0, section
    /// 3.11.3).
    B07,
    /// A PUBLISH from the server matches a subscription, where some are shared (MQTT 5.0, section
    /// 3.3.2.1).
    B08,
    /// A PUBLISH isn't at a QoS above what was granted, where some are shared (MQTT 5.0, sections
    /// 3.8.4 and 4.8.2).
    B09,
    /// A Subscription Identifier of a PUBLISH is that of a matching subscription (MQTT 5.0, section
    /// 3.3.4).
    P01,
    /// A PUBLISH has a Subscription Identifier, if each matching subscription has (MQTT 5.0,
    /// section 3.3.4).
    P02,
    /// RETAIN is 0 where no matching subscription asks for anything else (MQTT 5.0, section
    /// 3.3.1.3).
    R01,
    /// No retained message is sent for a shared subscription (MQTT 5.0, section 4.8.2).
    R02,
    /// A new PUBLISH has RETAIN 0 where Retain Available is 0 (MQTT 5.0, section 3.2.2.3.5).
    F01,
    /// No filter has a wildcard where the server takes none (MQTT 5.0, section 3.2.2.3.11).
    F02,
    /// No SUBSCRIBE has a Subscription Identifier where the server takes none (MQTT 5.0, section
    /// 3.2.2.3.12).
    F03,
    /// No SUBSCRIBE has a shared filter where the server takes none (MQTT 5.0, section 3.2.2.3.13).
    F04,
    /// A Will QoS above the announced Maximum QoS is refused (MQTT 5.0, section 3.2.2.3.4).
    F05,
    /// A Will with Will Retain 1 is refused where Retain Available is 0 (MQTT 5.0, section
    /// 3.2.2.3.5).
    F06,
    /// A shared filter has a name without wildcards, and a filter after it (MQTT 5.0, section
    /// 4.8.2).
    V03,
    /// No Local is 0 for a shared filter (MQTT 5.0, section 3.8.3.1).
    V04,
    /// A Reason Code is one that this end may send (MQTT 5.0, sections 3.4.2.1 and 3.14.2.1).
    V06,
    /// A CONNECT is answered by a CONNACK, if the connection stays open (MQTT 5.0, section 3.1.4).
    C24,
    /// After a Malformed Packet the server closes the connection (MQTT 5.0, section 4.13.1).
    D01,
    /// After a second CONNECT the server closes the connection (MQTT 5.0, section 3.1).
    D02,
    /// After a Protocol Error the server closes the connection (MQTT 5.0, section 4.13.1).
    D03,
    /// After more QoS 2 PUBLISHes than its Receive Maximum the server closes (MQTT 5.0, section
    /// 3.3.4).
    D05,
    /// A client that uses an Authentication Method sends only AUTH and DISCONNECT before a CONNACK
    /// was received (MQTT 5.0, section 3.1.2.11.9).
    A01,
    /// Without an Authentication Method in CONNECT there is no enhanced authentication (MQTT 5.0,
    /// section 4.12).
    A02,
    /// AUTH and an accepting CONNACK have the Authentication Method of the CONNECT (MQTT 5.0,
    /// section 4.12).
    A03,
    /// A client isn't silent for longer than the Keep Alive (MQTT 5.0, section 3.1.2.10).
    K01,
    /// A server closes the connection of a client that is silent (MQTT 5.0, section 3.1.2.10).
    K02,
}

impl Rule {
    /// The rule on a packet's bytes, as a statement.
    pub fn of(rule: PacketRule) -> Rule
        ensures { (role : Role) → statement role result ≡ on_bytes rule }
    {
        match rule {
            PacketRule::W01 => Rule::W01,
            PacketRule::W02 => Rule::W02,
            PacketRule::W03 => Rule::W03,
            PacketRule::W04 => Rule::W04,
            PacketRule::W05 => Rule::W05,
            PacketRule::W06 => Rule::W06,
            PacketRule::W07 => Rule::W07,
            PacketRule::W08 => Rule::W08,
            PacketRule::W09 => Rule::W09,
            PacketRule::W10 => Rule::W10,
            PacketRule::W11 => Rule::W11,
            PacketRule::W12 => Rule::W12,
            PacketRule::W13 => Rule::W13,
            PacketRule::W14 => Rule::W14,
            PacketRule::W15 => Rule::W15,
            PacketRule::W16 => Rule::W16,
            PacketRule::W17 => Rule::W17,
            PacketRule::W18 => Rule::W18,
            PacketRule::W19 => Rule::W19,
            PacketRule::W20 => Rule::W20,
            PacketRule::W21 => Rule::W21,
        }
    }
}
