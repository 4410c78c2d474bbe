//! The texts of `explain` for the statements on the bytes of a packet (W01 to W21).

/// The text of `explain W01`.
pub const W01: &str = "W01 both MQTT-2.1.3-1\n\
    The flags of a packet other than PUBLISH are those of its type.\n\n\
    Why: The four low bits of the first byte are reserved in every packet but\n\
    PUBLISH, so that a later version can use them. PUBREL, SUBSCRIBE and UNSUBSCRIBE\n\
    have 0010 there, and all others 0000.\n\n\
    Judged: On every connection, at the packet, only by its bytes. Decided at once.\n\
    Only the first rule that a packet's bytes break is reported, with the offset in\n\
    the packet.\n\n\
    To see it tested: Let this end send any packet other than PUBLISH. PUBREL,\n\
    SUBSCRIBE and UNSUBSCRIBE say most, since their flags aren't 0000.\n\n\
    In a client: The encoder writes only the type shifted by four, and forgets the\n\
    0x02 of PUBREL, SUBSCRIBE or UNSUBSCRIBE. Take the whole first byte from a table\n\
    by type: 0x62, 0x82, 0xA2.\n\n\
    In a server: The encoder of PUBREL writes 0x60 in place of 0x62, or keeps the\n\
    DUP bit of the PUBLISH that it answers. Take the whole first byte from a table\n\
    by type.\n\n\
    See: MQTT 5.0, section 2.1.3.\n";

/// The text of `explain W02`.
pub const W02: &str = "W02 both sec-2.1.2\n\
    The type isn't 0.\n\n\
    Why: Type 0 is reserved, so a receiver can't tell what such bytes mean.\n\n\
    Judged: On every connection, at the packet, only by its bytes. Decided at once.\n\
    Only the first rule that a packet's bytes break is reported, with the offset in\n\
    the packet.\n\n\
    To see it tested: Each packet that this end sends tests it.\n\n\
    In a client or a server: A buffer is sent before its first byte was filled in,\n\
    or the sender has lost its place in the stream, for example because a Remaining\n\
    Length was too short and the rest of a packet is read as a new one. Write the\n\
    fixed header last, with the length of what was written.\n\n\
    See: MQTT 5.0, section 2.1.2.\n";

/// The text of `explain W03`.
pub const W03: &str = "W03 both MQTT-1.5.5-1\n\
    A Variable Byte Integer has at most four bytes, and no more than it needs.\n\n\
    Why: Each number has one spelling, so that a receiver can compare and count\n\
    bytes. More than four bytes can't be a length at all.\n\n\
    Judged: On every connection, at the packet, only by its bytes. Decided at once.\n\
    Only the first rule that a packet's bytes break is reported, with the offset in\n\
    the packet.\n\n\
    To see it tested: Each packet that this end sends tests it, by its Remaining\n\
    Length. One of 128 bytes or more says most.\n\n\
    In a client or a server: The encoder reserves a fixed number of bytes for a\n\
    length and fills it with 0x80 bytes. Compute the length first, and write seven\n\
    bits at a time until nothing is left.\n\n\
    See: MQTT 5.0, section 1.5.5.\n";

/// The text of `explain W04`.
pub const W04: &str = "W04 both MQTT-1.5.4-1\n\
    A text is well-formed UTF-8.\n\n\
    Why: Texts are compared and matched as characters, so both ends must read the\n\
    same ones from the bytes.\n\n\
    Judged: On every connection, at the packet, only by its bytes. Decided at once.\n\
    Only the first rule that a packet's bytes break is reported, with the offset in\n\
    the packet.\n\n\
    To see it tested: Let this end send a text: a CONNECT, SUBSCRIBE or UNSUBSCRIBE\n\
    from a client has one, and so has a PUBLISH with a Topic Name, and each packet\n\
    with a text among its properties, such as a Reason String or a User Property.\n\n\
    In a client: The application gives a text in Latin-1, or one cut in the middle\n\
    of a character, and the library copies its bytes. Check UTF-8 where a text\n\
    enters the API, and cut texts at characters.\n\n\
    In a server: A topic, or a User Property, is passed on from another source\n\
    without a check, or a Reason String is cut in the middle of a character. Check\n\
    texts where they enter, and cut them at characters.\n\n\
    See: MQTT 5.0, section 1.5.4.\n";

/// The text of `explain W05`.
pub const W05: &str = "W05 both MQTT-1.5.4-2\n\
    A text doesn't contain U+0000.\n\n\
    Why: U+0000 ends a text in many languages, so what follows it would be seen by\n\
    some receivers and not by others.\n\n\
    Judged: On every connection, at the packet, only by its bytes. Decided at once.\n\
    Only the first rule that a packet's bytes break is reported, with the offset in\n\
    the packet.\n\n\
    To see it tested: Let this end send a text: a CONNECT, SUBSCRIBE or UNSUBSCRIBE\n\
    from a client has one, and so has a PUBLISH with a Topic Name, and each packet\n\
    with a text among its properties, such as a Reason String or a User Property.\n\n\
    In a client or a server: A text from a buffer with a terminating zero is sent\n\
    with it, since the buffer's size was taken for the text's length. Take the\n\
    length of the text, and refuse a text with U+0000 in the API.\n\n\
    See: MQTT 5.0, section 1.5.4.\n";

/// The text of `explain W06`.
pub const W06: &str = "W06 both sec-2.1.4\n\
    Each field ends within its packet or list, and no bytes are left over.\n\n\
    Why: A receiver finds the end of each field by lengths alone. A field that runs\n\
    past its packet or its list of properties, or bytes that are left over, mean\n\
    that the two ends read different packets.\n\n\
    Judged: On every connection, at the packet, only by its bytes. Decided at once.\n\
    Only the first rule that a packet's bytes break is reported, with the offset in\n\
    the packet.\n\n\
    To see it tested: Each packet that this end sends tests it. Those with\n\
    properties, and with several filters or Reason Codes, say most.\n\n\
    In a client or a server: The Remaining Length or the Property Length is computed\n\
    by different code from the code that writes the fields, and one of the two was\n\
    forgotten. Write the fields to a buffer and take the lengths from it.\n\n\
    See: MQTT 5.0, section 2.1.4.\n";

/// The text of `explain W07`.
pub const W07: &str = "W07 both MQTT-3.3.1-4\n\
    The QoS of a PUBLISH isn't 3.\n\n\
    Why: There are three levels of QoS. Both QoS bits together mean none of them.\n\n\
    Judged: On every connection, at the packet, only by its bytes. Decided at once.\n\
    Only the first rule that a packet's bytes break is reported, with the offset in\n\
    the packet.\n\n\
    To see it tested: Let this end send a PUBLISH: let a client publish, and publish\n\
    what a server's client has subscribed to.\n\n\
    In a client: The QoS is taken from a number of the application without a check,\n\
    or two flags are set one after the other. Make the QoS a type with three values.\n\n\
    In a server: The QoS of a delivery is computed with bits, as by an OR of the\n\
    publisher's with the subscription's. Take the smaller of the two numbers.\n\n\
    See: MQTT 5.0, section 3.3.1.2.\n";

/// The text of `explain W08`.
pub const W08: &str = "W08 both MQTT-3.3.1-2\n\
    DUP is 0 in a PUBLISH of QoS 0.\n\n\
    Why: A PUBLISH of QoS 0 is never sent again, so it can't be a duplicate.\n\n\
    Judged: On every connection, at the packet, only by its bytes. Decided at once.\n\
    Only the first rule that a packet's bytes break is reported, with the offset in\n\
    the packet.\n\n\
    To see it tested: Let this end send a PUBLISH of QoS 0: let a client publish at\n\
    QoS 0, and publish what a server's client has subscribed to at QoS 0.\n\n\
    In a client: The code that sends again after a reconnect also takes messages of\n\
    QoS 0 from its queue and sets DUP on all. Keep only messages of QoS 1 and 2 for\n\
    resending.\n\n\
    In a server: The DUP flag of the incoming PUBLISH is copied to the outgoing one,\n\
    whose QoS was lowered to 0. DUP belongs to one hop: set it only where this end\n\
    itself sends again.\n\n\
    See: MQTT 5.0, section 3.3.1.1.\n";

/// The text of `explain W09`.
pub const W09: &str = "W09 both sec-2.2.1\n\
    A Packet Identifier isn't 0.\n\n\
    Why: A Packet Identifier connects a packet with its answer, and 0 means that\n\
    there is none.\n\n\
    Judged: On every connection, at the packet, only by its bytes. Decided at once.\n\
    Only the first rule that a packet's bytes break is reported, with the offset in\n\
    the packet.\n\n\
    To see it tested: Let this end send a packet with a Packet Identifier: a PUBLISH\n\
    of QoS 1 or 2, or one that follows it (PUBACK to PUBCOMP); a SUBSCRIBE or\n\
    UNSUBSCRIBE from a client, and its answer from a server.\n\n\
    In a client: The counter of Packet Identifiers begins at 0, or wraps from 65,535\n\
    to 0. Wrap it to 1, and skip identifiers that are in use.\n\n\
    In a server: The counter for deliveries begins at 0 or wraps to it, or an answer\n\
    is sent for a packet whose identifier wasn't read. Let the counter run from 1 to\n\
    65,535.\n\n\
    See: MQTT 5.0, section 2.2.1.\n";

/// The text of `explain W10`.
pub const W10: &str = "W10 both sec-2.2.2.2\n\
    A property is known, and allowed in its list.\n\n\
    Why: A receiver skips nothing that it doesn't know: an unknown property, or one\n\
    that doesn't belong to the packet or to the Will, makes the packet malformed.\n\n\
    Judged: On every connection, at the packet, only by its bytes. Decided at once.\n\
    Only the first rule that a packet's bytes break is reported, with the offset in\n\
    the packet.\n\n\
    To see it tested: Let this end send a packet with a property, or a CONNECT with\n\
    a Will that has one.\n\n\
    In a client: One list of properties is used for all packets, so a Session Expiry\n\
    Interval is sent in a SUBSCRIBE, say. Give each packet its own set of\n\
    properties.\n\n\
    In a server: Properties of the publisher's packet are copied without a choice,\n\
    or a CONNACK has a property that only a CONNECT may have. Give each packet its\n\
    own set of properties.\n\n\
    See: MQTT 5.0, section 2.2.2.2.\n";

/// The text of `explain W11`.
pub const W11: &str = "W11 both sec-2.2.2.2\n\
    No property is repeated in a list, except those that may be.\n\n\
    Why: Two values for one property leave open which one counts. Only User Property\n\
    may be repeated, and Subscription Identifier in a PUBLISH from a server.\n\n\
    Judged: On every connection, at the packet, only by its bytes. Decided at once.\n\
    Only the first rule that a packet's bytes break is reported, with the offset in\n\
    the packet.\n\n\
    To see it tested: Let this end send a packet, or a Will, with a property that\n\
    may be there only once: each but User Property, and Subscription Identifier in a\n\
    PUBLISH.\n\n\
    In a client: A default property is put into the list and the application's own\n\
    one after it. Keep properties in fields or a map, and let the later value\n\
    replace the first.\n\n\
    In a server: A property of the message and one that the server adds are both\n\
    written. Keep properties in fields or a map, and let one replace the other.\n\n\
    See: MQTT 5.0, section 2.2.2.2.\n";

/// The text of `explain W12`.
pub const W12: &str = "W12 both sec-2.2.2.2\n\
    The value of a property is in its range.\n\n\
    Why: Some properties have only a few meaningful values: flags are 0 or 1, and\n\
    Receive Maximum, Maximum Packet Size, Topic Alias and Subscription Identifier\n\
    aren't 0.\n\n\
    Judged: On every connection, at the packet, only by its bytes. Decided at once.\n\
    Only the first rule that a packet's bytes break is reported, with the offset in\n\
    the packet.\n\n\
    To see it tested: Let this end send a property that doesn't have all values of\n\
    its type, such as Receive Maximum, Maximum Packet Size, Topic Alias, or one that\n\
    is 0 or 1.\n\n\
    In a client: A setting of 0 that means \"no limit\" in the application is sent as\n\
    Receive Maximum or Maximum Packet Size. Leave the property out instead.\n\n\
    In a server: A setting of 0 that means \"no limit\" is sent as Receive Maximum or\n\
    Maximum Packet Size, or Maximum QoS is sent as 2. Leave the property out\n\
    instead.\n\n\
    See: MQTT 5.0, section 2.2.2.2.\n";

/// The text of `explain W13`.
pub const W13: &str = "W13 both sec-2.4\n\
    A Reason Code is one that its packet may have.\n\n\
    Why: The peer decides by the Reason Code what to do next, so the code must be\n\
    one that the packet can have.\n\n\
    Judged: On every connection, at the packet, only by its bytes. Decided at once.\n\
    Only the first rule that a packet's bytes break is reported, with the offset in\n\
    the packet.\n\n\
    To see it tested: Let this end send a Reason Code: a CONNACK has one, and a\n\
    SUBACK or UNSUBACK one for each filter. A PUBACK, PUBREC, PUBREL, PUBCOMP,\n\
    DISCONNECT or AUTH tests it only if the code is written, so let it be another\n\
    than 0x00.\n\n\
    In a client: A Return Code of MQTT 3.1.1 or an error number of the application\n\
    is sent as it is, as in a DISCONNECT. Map errors to an enum of the codes of that\n\
    packet.\n\n\
    In a server: A code of one packet is used in another, as a CONNACK code in a\n\
    SUBACK, or a Return Code of MQTT 3.1.1. Map errors to an enum of the codes of\n\
    that packet.\n\n\
    See: MQTT 5.0, section 2.4.\n";

/// The text of `explain W14`.
pub const W14: &str = "W14 both sec-3.3.2\n\
    A Topic Name, and the Response Topic of a PUBLISH, has no wildcard.\n\n\
    Why: A message has one topic. Wildcards belong to filters, and one in a Topic\n\
    Name would match subscriptions that it doesn't mean.\n\n\
    Judged: On every connection, at the packet, only by its bytes. Decided at once.\n\
    Only the first rule that a packet's bytes break is reported, with the offset in\n\
    the packet.\n\n\
    To see it tested: Let this end send a PUBLISH with a Topic Name or a Response\n\
    Topic.\n\n\
    In a client: The application publishes to the text that it subscribed with.\n\
    Check for + and # where a topic enters the API, the Response Topic and the Will\n\
    Topic too.\n\n\
    In a server: The Response Topic of the incoming PUBLISH is passed on without a\n\
    check, or a filter is used as the topic of a retained message. Refuse such a\n\
    PUBLISH when it comes in.\n\n\
    See: MQTT 5.0, section 3.3.2.\n";

/// The text of `explain W15`.
pub const W15: &str = "W15 both sec-4.7\n\
    A Topic Filter is valid.\n\n\
    Why: A wildcard stands for whole levels: # only alone in the last level, + only\n\
    alone in a level. A filter isn't empty.\n\n\
    Judged: On every connection, at the packet, only by its bytes. Decided at once.\n\
    Only the first rule that a packet's bytes break is reported, with the offset in\n\
    the packet.\n\n\
    To see it tested: Let a client send a SUBSCRIBE or UNSUBSCRIBE; filters with\n\
    wildcards say most. A server sends neither, and isn't tested.\n\n\
    In a client: A filter is put together from parts, which gives sport# or a+b, or\n\
    nothing at all. Check filters where they enter the API.\n\n\
    In a server: A server sends no filters: it has sent a SUBSCRIBE or UNSUBSCRIBE,\n\
    which C01 forbids too. If the server is also a client, for example as a bridge,\n\
    record that end separately.\n\n\
    See: MQTT 5.0, section 4.7.\n";

/// The text of `explain W16`.
pub const W16: &str = "W16 both MQTT-3.8.3-2,MQTT-3.10.3-2\n\
    A SUBSCRIBE or UNSUBSCRIBE has at least one filter.\n\n\
    Why: A SUBSCRIBE or UNSUBSCRIBE with no filter asks for nothing, and its answer\n\
    would have no Reason Code.\n\n\
    Judged: On every connection, at the packet, only by its bytes. Decided at once.\n\
    Only the first rule that a packet's bytes break is reported, with the offset in\n\
    the packet.\n\n\
    To see it tested: Let a client send a SUBSCRIBE or UNSUBSCRIBE. A server sends\n\
    neither, and isn't tested.\n\n\
    In a client: The list of filters to subscribe to after a reconnect is empty, and\n\
    the packet is sent anyway. Send it only where there is a filter.\n\n\
    In a server: A server sends neither packet: C01 forbids it. If the server is\n\
    also a client, for example as a bridge, record that end separately.\n\n\
    See: MQTT 5.0, sections 3.8.3 and 3.10.3.\n";

/// The text of `explain W17`.
pub const W17: &str = "W17 both sec-3.8.3\n\
    The Subscription Options have neither Maximum QoS 3 nor Retain Handling 3, and\n\
    no reserved bit is set.\n\n\
    Why: The two high bits of the Subscription Options are reserved, and neither QoS\n\
    3 nor Retain Handling 3 means anything.\n\n\
    Judged: On every connection, at the packet, only by its bytes. Decided at once.\n\
    Only the first rule that a packet's bytes break is reported, with the offset in\n\
    the packet.\n\n\
    To see it tested: Let a client send a SUBSCRIBE; one with No Local, Retain As\n\
    Published and Retain Handling 2 says most. A server sends none, and isn't\n\
    tested.\n\n\
    In a client: The options are put together with wrong shifts: No Local is bit 2,\n\
    Retain As Published bit 3, and Retain Handling bits 4 and 5. Write them from one\n\
    struct, by one function.\n\n\
    In a server: A server sends no SUBSCRIBE: C01 forbids it. If the server is also\n\
    a client, for example as a bridge, record that end separately.\n\n\
    See: MQTT 5.0, section 3.8.3.1.\n";

/// The text of `explain W18`.
pub const W18: &str = "W18 both sec-3.1.2\n\
    The Protocol Name is `MQTT`.\n\n\
    Why: By its name and version a server knows which protocol is spoken, and\n\
    refuses what it doesn't know.\n\n\
    Judged: On every connection, at the packet, only by its bytes. Decided at once.\n\
    Only the first rule that a packet's bytes break is reported, with the offset in\n\
    the packet.\n\n\
    To see it tested: Each CONNECT from a client tests it. A server sends none, and\n\
    isn't tested.\n\n\
    In a client: The CONNECT still has MQIsdp, the name of MQTT 3.1, or the name is\n\
    written with small letters. Write MQTT and version 5.\n\n\
    In a server: A server sends no CONNECT: C01 forbids it. If the server is also a\n\
    client, for example as a bridge, record that end separately.\n\n\
    See: MQTT 5.0, section 3.1.2.1.\n";

/// The text of `explain W19`.
pub const W19: &str = "W19 both sec-3.1.2\n\
    The Connect Flags have no reserved bit set, no Will QoS 3, and no Will QoS or\n\
    Will Retain without a Will.\n\n\
    Why: Bit 0 is reserved, and Will QoS and Will Retain describe a Will: without\n\
    one they must be 0.\n\n\
    Judged: On every connection, at the packet, only by its bytes. Decided at once.\n\
    Only the first rule that a packet's bytes break is reported, with the offset in\n\
    the packet.\n\n\
    To see it tested: Each CONNECT from a client tests it; one with a Will says\n\
    most. A server sends none, and isn't tested.\n\n\
    In a client: The Will's QoS and Retain are taken from settings though no Will is\n\
    set. Compute all three flags from one optional Will.\n\n\
    In a server: A server sends no CONNECT: C01 forbids it. If the server is also a\n\
    client, for example as a bridge, record that end separately.\n\n\
    See: MQTT 5.0, section 3.1.2.3.\n";

/// The text of `explain W20`.
pub const W20: &str = "W20 both MQTT-3.2.2-1\n\
    The Connect Acknowledge Flags have no reserved bit set.\n\n\
    Why: Only Session Present is defined. The other seven bits are reserved.\n\n\
    Judged: On every connection, at the packet, only by its bytes. Decided at once.\n\
    Only the first rule that a packet's bytes break is reported, with the offset in\n\
    the packet.\n\n\
    To see it tested: Each CONNACK from a server tests it. A client sends none, and\n\
    isn't tested.\n\n\
    In a client: A client sends no CONNACK: C01 forbids it. Look whether the two\n\
    directions of the log were swapped.\n\n\
    In a server: The Reason Code or other bits are written into the flags' byte.\n\
    Write 1 where a session is present, and else 0.\n\n\
    See: MQTT 5.0, section 3.2.2.1.\n";

/// The text of `explain W21`.
pub const W21: &str = "W21 both sec-3.3.2\n\
    A PUBLISH has a Topic Name or a Topic Alias.\n\n\
    Why: A receiver takes the topic from the Topic Name or from the Topic Alias.\n\
    With neither, the message has none.\n\n\
    Judged: On every connection, at the packet, only by its bytes. Decided at once.\n\
    Only the first rule that a packet's bytes break is reported, with the offset in\n\
    the packet.\n\n\
    To see it tested: Let this end send a PUBLISH with an empty Topic Name: announce\n\
    a Topic Alias Maximum to it, and let it send to one topic several times.\n\n\
    In a client: The Topic Name is left out because an alias was set before, but the\n\
    property isn't written. Let one function choose: name alone, name and alias, or\n\
    alias alone.\n\n\
    In a server: The Topic Name is left out for a known alias, but the property is\n\
    lost when the message is queued. Let one function choose: name alone, name and\n\
    alias, or alias alone.\n\n\
    See: MQTT 5.0, section 3.3.2.\n";
