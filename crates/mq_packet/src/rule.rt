//! The rules on the bytes of one packet.

/// A rule on the bytes of one packet, by its code.
#[derive(Clone, Copy, Debug, PartialEq, Eq)]
pub enum PacketRule {
    /// The flags of a packet other than PUBLISH are those of its type (MQTT 5.0, section 2.1.3).
    W01,
    /// The type isn't 0 (MQTT 5.0, section 2.1.2).
    W02,
    /// A Variable Byte Integer has at most four bytes, and no more than it needs (MQTT 5.0, section
    /// 1.5.5).
    W03,
    /// A text is well-formed UTF-8 (MQTT 5.0, section 1.5.4).
    W04,
    /// A text doesn't contain U+0000 (MQTT 5.0, section 1.5.4).
    W05,
    /// Each field ends within its packet or list, and no bytes are left over (MQTT 5.0, section
    /// 2.1.4).
    W06,
    /// The QoS of a PUBLISH isn't 3 (MQTT 5.0, section 3.3.1.2).
    W07,
    /// DUP is 0 in a PUBLISH of QoS 0 (MQTT 5.0, section 3.3.1.1).
    W08,
    /// A Packet Identifier isn't 0 (MQTT 5.0, section 2.2.1).
    W09,
    /// A property is known, and allowed in its list (MQTT 5.0, section 2.2.2.2).
    W10,
    /// No property is repeated in a list, except those that may be (MQTT 5.0, section 2.2.2.2).
    W11,
    /// The value of a property is in its range (MQTT 5.0, section 2.2.2.2).
    W12,
    /// A Reason Code is one that its packet may have (MQTT 5.0, section 2.4).
    W13,
    /// A Topic Name, and the Response Topic of a PUBLISH, has no wildcard (MQTT 5.0, section
    /// 3.3.2).
    W14,
    /// A Topic Filter is valid (MQTT 5.0, section 4.7).
    W15,
    /// A SUBSCRIBE or UNSUBSCRIBE has at least one filter (MQTT 5.0, sections 3.8.3 and 3.10.3).
    W16,
    /// The Subscription Options have neither Maximum QoS 3 nor Retain Handling 3, and no reserved
    /// bit is set (MQTT 5.0, section 3.8.3.1).
    W17,
    /// The Protocol Name is `MQTT` (MQTT 5.0, section 3.1.2.1).
    W18,
    /// The Connect Flags have no reserved bit set, no Will QoS 3, and no Will QoS or Will Retain
    /// without a Will (MQTT 5.0, section 3.1.2.3).
    W19,
    /// The Connect Acknowledge Flags have no reserved bit set (MQTT 5.0, section 3.2.2.1).
    W20,
    /// A PUBLISH has a Topic Name or a Topic Alias (MQTT 5.0, section 3.3.2).
    W21,
}
