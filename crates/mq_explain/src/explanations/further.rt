//! The texts of `explain` for the further statements (B05 to B09, P01, P02, R01, R02, F01 to F06,
//! V03, V04, V06, C24, D01 to D03, D05, A01 to A03, K01 and K02), which are judged on request.

/// The text of `explain B05`.
pub const B05: &str = "B05 server sec-3.9.3\n\
    A SUBACK grants no more than was asked for.\n\n\
    Why: The client asked for the greatest QoS at which it wants to be served, and\n\
    may not be able to handle more. A server may grant less, and never more.\n\n\
    Judged: At a SUBACK that answers a SUBSCRIBE, if a Reason Code below 0x80 is\n\
    above the Maximum QoS in the options of the filter at its place, on a connection\n\
    that the server accepted. Codes too many, and filters without one, are left to\n\
    B03. Decided at once, or at the CONNACK if that comes later. It is a further\n\
    statement: it is judged with --all.\n\n\
    To see it tested: Subscribe; one SUBSCRIBE with filters of different QoS says\n\
    most. The SUBACK that answers it tests this, unless it refuses all of them.\n\n\
    In a server: Each code is the greatest QoS that the server can serve, or the\n\
    codes are in another order than the filters. Write the smaller one of that QoS\n\
    and the one that was asked for, in the order of the SUBSCRIBE.\n\n\
    See: MQTT 5.0, section 3.9.3.\n";

/// The text of `explain B06`.
pub const B06: &str = "B06 server MQTT-3.10.4-1\n\
    No UNSUBACK says of a subscription that it doesn't exist.\n\n\
    Why: A server has to compare the filters of an UNSUBSCRIBE with those that its\n\
    client has, character by character, and to delete the one that is equal. If it\n\
    doesn't find that one, it goes on serving it, and the client can't stop it.\n\n\
    Judged: At an UNSUBACK that answers an UNSUBSCRIBE, if a Reason Code is 0x11 (No\n\
    subscription existed) and the filter at its place was subscribed, on a\n\
    connection that the server accepted. It was if the last SUBSCRIBE or UNSUBSCRIBE\n\
    with this filter in the session, before this one, is a SUBSCRIBE, and the SUBACK\n\
    that answers it granted the filter before the UNSUBSCRIBE came. A filter that\n\
    comes twice is deleted at its first place. One that is asked for or given up\n\
    again before the UNSUBACK isn't judged. Nothing is judged in a session after\n\
    bytes that may be a SUBSCRIBE or an UNSUBSCRIBE, and break a rule. Decided at\n\
    once, or at the CONNACK if that comes later. It is a further statement: it is\n\
    judged with --all.\n\n\
    To see it tested: Subscribe, wait for the SUBACK, and unsubscribe, also in a\n\
    session that is resumed. An UNSUBACK that says 0x00 or 0x11 of such a filter\n\
    tests this.\n\n\
    In a server: The filter is looked for in another form than it is kept in, or not\n\
    among the subscriptions of a resumed session. Look for the text that the client\n\
    sent, delete what is equal, and write 0x00 for it.\n\n\
    See: MQTT 5.0, sections 3.10.4 and 3.11.3.\n";

/// The text of `explain B07`.
pub const B07: &str = "B07 server sec-3.11.3\n\
    No UNSUBACK says that a filter was deleted which was never subscribed.\n\n\
    Why: 0x00 says that a subscription is deleted. A client that misspells a filter\n\
    learns only by 0x11 (No subscription existed) that the right one still stands.\n\n\
    Judged: At an UNSUBACK that answers an UNSUBSCRIBE, if a Reason Code is 0x00 and\n\
    no SUBSCRIBE before it in the session has the filter at its place, those aside\n\
    whose SUBACK had refused it, on a connection that the server accepted. A filter\n\
    that was unsubscribed since counts too, and so does one of a SUBSCRIBE that has\n\
    no answer yet, or came after the UNSUBSCRIBE. Nothing is judged in a session\n\
    after bytes that may be a SUBSCRIBE or an UNSUBSCRIBE, and break a rule. Decided\n\
    at once, or at the CONNACK if that comes later. It is a further statement: it is\n\
    judged with --all.\n\n\
    To see it tested: Unsubscribe, also from filters that the client never\n\
    subscribed to. An UNSUBACK that says 0x00 of a filter, or 0x11 of one that was\n\
    never subscribed, tests this.\n\n\
    In a server: It writes 0x00 for each filter, whether something was deleted or\n\
    not. Write 0x11 where there was no subscription.\n\n\
    See: MQTT 5.0, section 3.11.3.\n";

/// The text of `explain B08`.
pub const B08: &str = "B08 server MQTT-3.3.2-3\n\
    A PUBLISH from the server matches a subscription, where some are shared.\n\n\
    Why: A client gets only what it asked for. The messages for a shared\n\
    subscription go to any client of its group, and to no other. In a session\n\
    without one, B01 says the same.\n\n\
    Judged: At a PUBLISH with DUP 0, after a SUBSCRIBE with a filter that begins\n\
    with $share/ in the session, if its topic matches no subscription of the\n\
    session, on a connection that the server accepted. Of a shared one the filter\n\
    after the ShareName counts, and its own text too. A filter that its SUBACK\n\
    refused doesn't count. Any other does, also before the SUBACK, and after it was\n\
    replaced or unsubscribed, since messages may be on the way. Nothing is judged in\n\
    a session after bytes that may be a SUBSCRIBE or an UNSUBSCRIBE, and break a\n\
    rule. Decided at once, or at the CONNACK if that comes later. It is a further\n\
    statement: it is judged with --all.\n\n\
    To see it tested: Let the server send a PUBLISH with DUP 0, in a session that\n\
    asked for a shared subscription. Publish to topics too that its filters nearly\n\
    match, and let a client of another filter have the same ShareName.\n\n\
    In a server: Groups are found by the ShareName alone, so that those of two\n\
    filters are taken for one, or a session that ended is still in its group. A\n\
    group is a ShareName and a filter: keep it under both, and take a session out of\n\
    it when that ends.\n\n\
    See: MQTT 5.0, sections 3.3.2.1 and 4.8.2.\n";

/// The text of `explain B09`.
pub const B09: &str = "B09 server MQTT-3.8.4-8,MQTT-4.8.2-3\n\
    A PUBLISH isn't at a QoS above what was granted, where some are shared.\n\n\
    Why: The granted QoS is the most that the client is ready for, and each client\n\
    of a group may have been granted another one. In a session without a shared\n\
    subscription, B02 says the same.\n\n\
    Judged: At a PUBLISH with DUP 0 and a QoS above 0, after a SUBSCRIBE with a\n\
    filter that begins with $share/ in the session, if its QoS is above what was\n\
    granted to each subscription that matches its topic, on a connection that the\n\
    server accepted. Of a shared one the filter after the ShareName counts, and its\n\
    own text too. Before the SUBACK, and where that has no code for a filter, the\n\
    QoS that was asked for counts. What was replaced or unsubscribed counts too,\n\
    since messages may be on the way. If none matches, that is B08. Nothing is\n\
    judged in a session after bytes that may be a SUBSCRIBE or an UNSUBSCRIBE, and\n\
    break a rule. Decided at once, or at the CONNACK if that comes later. It is a\n\
    further statement: it is judged with --all.\n\n\
    To see it tested: Let the server send a PUBLISH of QoS above 0 with DUP 0, in a\n\
    session that asked for a shared subscription. Publish at a QoS above what was\n\
    granted, and let the clients of a group ask for different QoS.\n\n\
    In a server: The QoS of a delivery is that of the publisher, or that of another\n\
    client of the group. Choose the client first, and send with the smaller one of\n\
    the message's QoS and the QoS that the SUBACK granted to this client.\n\n\
    See: MQTT 5.0, sections 3.8.4 and 4.8.2.\n";

/// The text of `explain P01`.
pub const P01: &str = "P01 server sec-3.3.4\n\
    A Subscription Identifier of a PUBLISH is that of a matching subscription.\n\n\
    Why: A client passes a message on by its identifiers. By a wrong one it gives it\n\
    to a handler that didn't ask for it, and the right one never sees it.\n\n\
    Judged: At a PUBLISH with DUP 0 and one or more Subscription Identifiers, if its\n\
    topic matches some subscription of the session, and one of the identifiers isn't\n\
    that of the SUBSCRIBE of any that it matches, on a connection that the server\n\
    accepted. Of a shared subscription the filter after the ShareName counts, and\n\
    its own text too. A filter that its SUBACK refused doesn't count. Any other\n\
    does, also before the SUBACK, and after it was replaced or unsubscribed, so that\n\
    each identifier that it ever had in the session will do. If none matches, that\n\
    is B01 or B08. A PUBLISH without an identifier is left to P02, and it isn't\n\
    judged whether all are there, or whether one comes twice. Nothing is judged in a\n\
    session after bytes that may be a SUBSCRIBE or an UNSUBSCRIBE, and break a rule.\n\
    Decided at once, or at the CONNACK if that comes later. It is a further\n\
    statement: it is judged with --all.\n\n\
    To see it tested: Subscribe with a Subscription Identifier, and let the server\n\
    send a PUBLISH with DUP 0 that has one. Several filters that overlap in part,\n\
    each with an identifier of its own, say most. Let another client have the same\n\
    filter with another identifier, and look at retained messages too.\n\n\
    In a server: A PUBLISH is made once for several clients, with the identifiers of\n\
    one of them, or has those of all filters of its client. Collect those of the\n\
    subscriptions that match, for each session by itself.\n\n\
    See: MQTT 5.0, sections 3.3.2.3.8 and 3.3.4.\n";

/// The text of `explain P02`.
pub const P02: &str = "P02 server MQTT-3.3.4-3\n\
    A PUBLISH has a Subscription Identifier, if each matching subscription has.\n\n\
    Why: The client asked for the identifier to learn for which subscription a\n\
    message came. A library that looks for the handler by it finds none.\n\n\
    Judged: At a PUBLISH with DUP 0 and without a Subscription Identifier, if its\n\
    topic matches some subscription of the session, and the SUBSCRIBE of each one\n\
    that it matches has a Subscription Identifier, on a connection that the server\n\
    accepted by a CONNACK without Subscription Identifier Available 0. Of a shared\n\
    subscription the filter after the ShareName counts, and its own text too. A\n\
    filter that its SUBACK refused doesn't count. Any other does, also before the\n\
    SUBACK, and after it was replaced or unsubscribed, so that what was asked for\n\
    once without an identifier isn't judged. Which identifiers the PUBLISH has is\n\
    left to P01, and it isn't judged whether it has all. Nothing is judged in a\n\
    session after bytes that may be a SUBSCRIBE or an UNSUBSCRIBE, and break a rule.\n\
    Decided at once, or at the CONNACK if that comes later. It is a further\n\
    statement: it is judged with --all.\n\n\
    To see it tested: Subscribe with a Subscription Identifier, and let the server\n\
    send a PUBLISH with DUP 0 that matches no filter which was asked for without\n\
    one. Look at retained messages too, and at a session that is resumed.\n\n\
    In a server: The identifier isn't kept with a session that is stored, or isn't\n\
    written into retained or queued messages. Keep it with the subscription, and\n\
    write it wherever a PUBLISH is made.\n\n\
    See: MQTT 5.0, section 3.3.4.\n";

/// The text of `explain R01`.
pub const R01: &str = "R01 server MQTT-3.3.1-11,MQTT-3.3.1-12\n\
    RETAIN is 0 where no matching subscription asks for anything else.\n\n\
    Why: With Retain Handling 2 a client asks for no retained messages, and with\n\
    Retain As Published 0 for RETAIN 0 in all others. If RETAIN is 1, it got an old\n\
    message that it didn't want, or takes a new one for an old one.\n\n\
    Judged: At a PUBLISH with DUP 0 and RETAIN 1, if its topic matches some\n\
    subscription of the session, and each one that it matches has Retain Handling 2\n\
    and Retain As Published 0, on a connection that the server accepted. Of a shared\n\
    subscription the filter after the ShareName counts, and its own text too. A\n\
    filter that its SUBACK refused doesn't count. Any other does, also before the\n\
    SUBACK, and after it was replaced or unsubscribed, so that what was asked for\n\
    once with other options isn't judged. Nothing is judged in a session after bytes\n\
    that may be a SUBSCRIBE or an UNSUBSCRIBE, and break a rule. Decided at once, or\n\
    at the CONNACK if that comes later. It is a further statement: it is judged with\n\
    --all.\n\n\
    To see it tested: Subscribe with Retain Handling 2 and Retain As Published 0.\n\
    Any PUBLISH with DUP 0 that matches no other filter tests this. Publish with\n\
    RETAIN 1 before the SUBSCRIBE, and after it.\n\n\
    In a server: RETAIN is forwarded as it came, or retained messages are sent\n\
    whatever the Retain Handling is. Write RETAIN 0 into what is forwarded unless\n\
    Retain As Published is 1, and send no retained messages for Retain Handling 2.\n\n\
    See: MQTT 5.0, sections 3.3.1.3 and 3.8.3.1.\n";

/// The text of `explain R02`.
pub const R02: &str = "R02 server sec-4.8.2\n\
    No retained message is sent for a shared subscription.\n\n\
    Why: A group handles each message once. If retained messages were sent to each\n\
    client that joins it, they would be handled again for each of them.\n\n\
    Judged: At a PUBLISH with DUP 0 and RETAIN 1, if its topic matches a shared\n\
    subscription of the session with Retain Handling 0 or 1, and each subscription\n\
    that it matches has Retain As Published 0, and is shared or has Retain Handling\n\
    2, on a connection that the server accepted. Of a shared one the filter after\n\
    the ShareName counts, and its own text too. A filter that its SUBACK refused\n\
    doesn't count. Any other does, also before the SUBACK, and after it was replaced\n\
    or unsubscribed. If each one has Retain Handling 2, that is R01. Nothing is\n\
    judged in a session after bytes that may be a SUBSCRIBE or an UNSUBSCRIBE, and\n\
    break a rule. Decided at once, or at the CONNACK if that comes later. It is a\n\
    further statement: it is judged with --all.\n\n\
    To see it tested: Publish with RETAIN 1, and then ask for a shared subscription\n\
    that matches, with Retain Handling 0 and Retain As Published 0. Any PUBLISH with\n\
    DUP 0 that it matches tests this, if no ordinary filter matches too.\n\n\
    In a server: Retained messages are looked up for each filter of a SUBSCRIBE.\n\
    Send none for those that begin with $share/. Or RETAIN is forwarded as it came:\n\
    write RETAIN 0 unless Retain As Published is 1.\n\n\
    See: MQTT 5.0, sections 3.3.1.3 and 4.8.2.\n";

/// The text of `explain F01`.
pub const F01: &str = "F01 client MQTT-3.2.2-14\n\
    A new PUBLISH has RETAIN 0 where Retain Available is 0.\n\n\
    Why: The server keeps no retained messages, and may close the connection with\n\
    0x9A (Retain not supported).\n\n\
    Judged: At a PUBLISH with RETAIN 1 and DUP 0 after a CONNACK with Retain\n\
    Available 0, on every connection. Decided at once. One that is sent again keeps\n\
    its RETAIN. It is a further statement: it is judged with --all.\n\n\
    To see it tested: Let the client publish where Retain Available is 0.\n\n\
    In a client: RETAIN is taken from the application, and nothing compares it with\n\
    what the CONNACK announced. Keep Retain Available, and refuse or clear RETAIN.\n\n\
    See: MQTT 5.0, section 3.2.2.3.5.\n";

/// The text of `explain F02`.
pub const F02: &str = "F02 client sec-3.2.2.3.11\n\
    No filter has a wildcard where the server takes none.\n\n\
    Why: The server can't do it, and closes the connection or refuses with 0xA2\n\
    (Wildcard Subscriptions not supported).\n\n\
    Judged: At a SUBSCRIBE after a CONNACK with Wildcard Subscription Available 0,\n\
    if a filter has a wildcard (a shared one, after its name), on every connection.\n\
    Decided at once. It is a further statement: it is judged with --all.\n\n\
    To see it tested: Let the client subscribe where Wildcard Subscription Available\n\
    is 0.\n\n\
    In a client: Filters are sent as the application gives them. Keep what the\n\
    CONNACK announced, and refuse a wildcard before it is sent.\n\n\
    See: MQTT 5.0, section 3.2.2.3.11.\n";

/// The text of `explain F03`.
pub const F03: &str = "F03 client sec-3.2.2.3.12\n\
    No SUBSCRIBE has a Subscription Identifier where the server takes none.\n\n\
    Why: The server can't send it back, and closes the connection with 0xA1\n\
    (Subscription Identifiers not supported).\n\n\
    Judged: At a SUBSCRIBE with a Subscription Identifier after a CONNACK with\n\
    Subscription Identifier Available 0, on every connection. Decided at once. It is\n\
    a further statement: it is judged with --all.\n\n\
    To see it tested: Let the client subscribe where Subscription Identifier\n\
    Available is 0.\n\n\
    In a client: It numbers its subscriptions whatever the server can do. Leave the\n\
    property out where the CONNACK says so.\n\n\
    See: MQTT 5.0, section 3.2.2.3.12.\n";

/// The text of `explain F04`.
pub const F04: &str = "F04 client sec-3.2.2.3.13\n\
    No SUBSCRIBE has a shared filter where the server takes none.\n\n\
    Why: The server can't share a subscription, and closes the connection or refuses\n\
    with 0x9E (Shared Subscriptions not supported).\n\n\
    Judged: At a SUBSCRIBE with a filter that begins with $share/, after a CONNACK\n\
    with Shared Subscription Available 0, on every connection. Decided at once. It\n\
    is a further statement: it is judged with --all.\n\n\
    To see it tested: Let the client subscribe where Shared Subscription Available\n\
    is 0.\n\n\
    In a client: Filters are sent as the application gives them. Keep what the\n\
    CONNACK announced, and refuse $share/ before it is sent.\n\n\
    See: MQTT 5.0, section 3.2.2.3.13.\n";

/// The text of `explain F05`.
pub const F05: &str = "F05 server MQTT-3.2.2-12\n\
    A Will QoS above the announced Maximum QoS is refused.\n\n\
    Why: The client believes that its Will will be published at the QoS that it\n\
    asked for. A server that can't do that has to refuse the connection.\n\n\
    Judged: At a CONNACK of 0x00 with a Maximum QoS, after a CONNECT whose Will has\n\
    a QoS above it, on every connection. Decided at once. It is a further statement:\n\
    it is judged with --all.\n\n\
    To see it tested: Connect with a Will to a server that announces a Maximum QoS,\n\
    or that refuses with 0x9B (QoS not supported).\n\n\
    In a server: The Will is stored as it came, and nothing compares its QoS with\n\
    the limit that the CONNACK announces. Compare it, and refuse with 0x9B.\n\n\
    See: MQTT 5.0, section 3.2.2.3.4.\n";

/// The text of `explain F06`.
pub const F06: &str = "F06 server MQTT-3.2.2-13\n\
    A Will with Will Retain 1 is refused where Retain Available is 0.\n\n\
    Why: The client believes that its Will will be kept for later subscribers. A\n\
    server without retained messages has to refuse the connection.\n\n\
    Judged: At a CONNACK of 0x00 with Retain Available 0, after a CONNECT with Will\n\
    Retain 1, on every connection. Decided at once. It is a further statement: it is\n\
    judged with --all.\n\n\
    To see it tested: Connect with a Will to a server that announces Retain\n\
    Available 0, or that refuses with 0x9A (Retain not supported).\n\n\
    In a server: The flag of the Will is dropped in silence where messages aren't\n\
    retained. Refuse with 0x9A.\n\n\
    See: MQTT 5.0, section 3.2.2.3.5.\n";

/// The text of `explain V03`.
pub const V03: &str = "V03 client MQTT-4.8.2-1,MQTT-4.8.2-2\n\
    A shared filter has a name without wildcards, and a filter after it.\n\n\
    Why: Without a name nobody knows with whom it is shared, and without a filter\n\
    what.\n\n\
    Judged: At a SUBSCRIBE with a filter $share/NAME/FILTER in which NAME is empty\n\
    or has + or #, or after which no / and FILTER follow, on every connection.\n\
    Decided at once. It is a further statement: it is judged with --all.\n\n\
    To see it tested: Let the client ask for a shared subscription.\n\n\
    In a client: The filter is checked as any other, and $share/+/a and $share/a\n\
    pass. Check the name, and what follows it, too.\n\n\
    See: MQTT 5.0, section 4.8.2.\n";

/// The text of `explain V04`.
pub const V04: &str = "V04 client MQTT-3.8.3-4\n\
    No Local is 0 for a shared filter.\n\n\
    Why: Another client of the share may have published what this one gets, so No\n\
    Local has no meaning there. It is a Protocol Error.\n\n\
    Judged: At a SUBSCRIBE with a filter that begins with $share/ and No Local 1, on\n\
    every connection. Decided at once. It is a further statement: it is judged with\n\
    --all.\n\n\
    To see it tested: Let the client ask for a shared subscription.\n\n\
    In a client: One setting of No Local is written for all filters. Leave it out of\n\
    those that begin with $share/.\n\n\
    See: MQTT 5.0, section 3.8.3.1.\n";

/// The text of `explain V06`.
pub const V06: &str = "V06 both sec-3.14.2.1,sec-3.4.2.1;sec-3.14.2.1\n\
    A Reason Code is one that this end may send.\n\n\
    Why: The other end takes it for what only its own side can mean, and may do what\n\
    nobody asked for.\n\n\
    Judged: At a client's DISCONNECT of 0x87, 0x89, 0x8B, 0x8D to 0x8F or 0x9A to\n\
    0xA2, and its PUBACK or PUBREC of 0x10; at a server's DISCONNECT of 0x04; on\n\
    every connection. Decided at once. It is a further statement: it is judged with\n\
    --all.\n\n\
    To see it tested: Let the end send a DISCONNECT, or a client acknowledge a\n\
    PUBLISH.\n\n\
    In a client: It says why it leaves with a code of servers. Use 0x80, 0x83 or\n\
    0x98 for what is its own decision; acknowledge with 0x00 what nobody wanted.\n\
    In a server: It answers a DISCONNECT of 0x04 with the same code. Answer nothing.\n\n\
    See: MQTT 5.0, sections 3.4.2.1 and 3.14.2.1.\n";

/// The text of `explain C24`.
pub const C24: &str = "C24 server MQTT-3.1.4-5\n\
    A CONNECT is answered by a CONNACK, if the connection stays open.\n\n\
    Why: The client learns by the CONNACK alone whether it was let in, and within\n\
    which limits. A server that doesn't let it in refuses by one too, or closes.\n\n\
    Judged: At the first CONNECT that is received on a connection, if a REST comes\n\
    later there and no CONNACK before that REST. Such a REST says that the server\n\
    handled all that came, keeps the connection, and sends nothing more for it. One\n\
    after a DISCONNECT of either end, or after bytes of either that break a rule,\n\
    doesn't count; nor one at which the server waits for an AUTH: it sent one, and\n\
    received none after that. Decided at the first REST that counts. Nothing is owed\n\
    to a client with a Maximum Packet Size below 5, into which no CONNACK fits, nor\n\
    for a CONNECT whose bytes break a rule. It is a further statement: it is judged\n\
    with --all.\n\n\
    To see it tested: Connect; a CONNACK tests this. That it is missing shows only\n\
    in a log with a REST there, which a recorder writes after a long silence.\n\n\
    In a server: The CONNECT is dropped where the client isn't let in, or waits for\n\
    another service without an end. Send a CONNACK that refuses, or close the\n\
    connection. If the CONNACK was only late, the REST came too early.\n\n\
    See: MQTT 5.0, sections 3.1.4, 3.1.2.11.4 and 4.12.\n";

/// The text of `explain D01`.
pub const D01: &str = "D01 server MQTT-4.13.1-1\n\
    After a Malformed Packet the server closes the connection.\n\n\
    Why: What can't be read can't be obeyed, and where the next packet begins may be\n\
    unknown too. A server that goes on may do what its client never asked for.\n\n\
    Judged: At the first Malformed Packet that is received on a connection: bytes\n\
    that break W01, W02, W04 to W07, W10 to W12, W16 to W19 or W21, or that can't be\n\
    cut into packets. It fails if a REST comes later on the connection, and the\n\
    server sent neither a DISCONNECT nor a CONNACK of 0x80 or more before that REST\n\
    (see C23 for those). Such a REST says that the server handled those bytes, and\n\
    keeps the connection. Decided at the REST. If either end had left before those\n\
    bytes, it isn't judged. It is a further statement: it is judged with --all.\n\n\
    To see it tested: Send a server a PINGREQ with a reserved flag set, and wait\n\
    until it is at rest, or has closed the connection.\n\n\
    In a server: The packet is dropped, and the next one is read. Send a DISCONNECT\n\
    with 0x81 (Malformed Packet), and close the connection. What can be read all the\n\
    same isn't malformed here (W03, W08, W09); nor is an unknown Reason Code (W13),\n\
    or a topic or a filter that can be refused alone (W14, W15).\n\n\
    See: MQTT 5.0, section 4.13.1.\n";

/// The text of `explain D02`.
pub const D02: &str = "D02 server MQTT-3.1.0-2\n\
    After a second CONNECT the server closes the connection.\n\n\
    Why: A client may send CONNECT once on a connection. What it asks for by a\n\
    second one can't be told, so the server has to treat it as a Protocol Error.\n\n\
    Judged: At the second CONNECT that is received on a connection, accepted or not;\n\
    bytes that break a rule count by their type. It fails if a REST comes later on\n\
    the connection, and the server sent neither a DISCONNECT nor a CONNACK of 0x80\n\
    or more before that REST (see C23 for those). Decided at the REST. If either end\n\
    had left before the CONNECT, it isn't judged. It is a further statement: it is\n\
    judged with --all.\n\n\
    To see it tested: Send a server a second CONNECT after its CONNACK, and wait\n\
    until it is at rest, or has closed the connection.\n\n\
    In a server: The second CONNECT is ignored, or answered by another CONNACK. Send\n\
    a DISCONNECT with 0x82 (Protocol Error), and close the connection.\n\n\
    See: MQTT 5.0, sections 3.1 and 4.13.1.\n";

/// The text of `explain D03`.
pub const D03: &str = "D03 server MQTT-4.13.1-1\n\
    After a Protocol Error the server closes the connection.\n\n\
    Why: A packet that can be read but isn't allowed says that the client and the\n\
    server differ about what was agreed. A server that goes on lets them drift\n\
    apart.\n\n\
    Judged: At the first packet received on a connection that is one of these:\n\
    CONNACK, SUBACK, UNSUBACK or PINGRESP; anything but a CONNECT before the\n\
    CONNECT; AUTH where the CONNECT had no Authentication Method; a DISCONNECT with\n\
    a Session Expiry Interval other than 0 where the CONNECT's was 0 or absent. And,\n\
    after a CONNACK that accepts: a packet above the server's Maximum Packet Size; a\n\
    PUBLISH with a Topic Alias above its Topic Alias Maximum or never set, with a\n\
    Subscription Identifier, above its Maximum QoS, or with RETAIN 1 where Retain\n\
    Available is 0; a SUBSCRIBE with No Local for a shared subscription, or with an\n\
    identifier where Subscription Identifier Available is 0. It fails if a REST\n\
    comes later on the connection, and the server sent neither a DISCONNECT nor a\n\
    CONNACK of 0x80 or more before that REST (see C23 for those). Decided at the\n\
    REST. If either end had left before the packet, it isn't judged. An alias may\n\
    have been set by a PUBLISH whose bytes break a rule, and a CONNECT that breaks\n\
    one counts. It is a further statement: it is judged with --all.\n\n\
    To see it tested: Send a server a PINGRESP, and wait until it is at rest, or has\n\
    closed the connection.\n\n\
    In a server: The packet is dropped, or taken all the same. Send a DISCONNECT\n\
    with the code of the error, or 0x82 (Protocol Error), and close the connection.\n\
    A wildcard or a shared filter that the server doesn't take isn't an error here:\n\
    a SUBACK may refuse it.\n\n\
    See: MQTT 5.0, sections 3.1, 3.2.2.3, 3.3.2.3.4, 3.3.4, 3.8.3.1, 3.14.2.2.2,\n\
    4.12 and 4.13.1.\n";

/// The text of `explain D05`.
pub const D05: &str = "D05 server sec-3.3.4\n\
    After more QoS 2 PUBLISHes than its Receive Maximum the server closes.\n\n\
    Why: The Receive Maximum says how many messages the server is ready to handle at\n\
    once. A server that takes more lets one client use memory that others need.\n\n\
    Judged: At the first PUBLISH of QoS 2 received on a connection after the CONNACK\n\
    with which more Packet Identifiers are unfinished than its Receive Maximum,\n\
    65,535 by default. One is unfinished if a PUBLISH of QoS 2 came under it on the\n\
    connection, before the CONNACK too, and since then no PUBREL came for it, and no\n\
    PUBCOMP or PUBREC of 0x80 or more was sent. It fails if a REST comes later on\n\
    the connection, and the server sent neither a DISCONNECT nor a CONNACK of 0x80\n\
    or more there before that REST (see C23 for those), nor a PUBREC of 0x80 or\n\
    more, which may refuse the message. Decided at the REST. If either end had left\n\
    before the PUBLISH, it isn't judged. QoS 1 isn't either: a log may have what was\n\
    received before the server read it, so each PUBLISH may have been answered\n\
    before the next was read. It is a further statement: it is judged with --all.\n\n\
    To see it tested: Announce a Receive Maximum of 1, send a server two PUBLISHes\n\
    of QoS 2 without a PUBREL, and wait until it is at rest, or has closed the\n\
    connection.\n\n\
    In a server: The messages are taken all the same. Send a DISCONNECT with 0x93\n\
    (Receive Maximum exceeded), and close the connection, as section 3.3.4 says. A\n\
    maker may dispute that this is a duty: section 4.9 says what a sender has to do,\n\
    and nothing of the receiver.\n\n\
    See: MQTT 5.0, sections 3.2.2.3.3, 3.3.4 and 4.9.\n";

/// The text of `explain A01`.
pub const A01: &str = "A01 client MQTT-3.1.2-30\n\
    A client that uses an Authentication Method sends only AUTH and DISCONNECT\n\
    before a CONNACK was received.\n\n\
    Why: Until the CONNACK the server is finding out who the client is, and can do\n\
    nothing for it. AUTH is for that, and DISCONNECT gives it up.\n\n\
    Judged: At a packet other than CONNECT, AUTH and DISCONNECT, after a CONNECT\n\
    with an Authentication Method and before a CONNACK was received, on every\n\
    connection. Bytes that break a rule count by their type; received ones that\n\
    can't be cut into packets count as a CONNACK. Decided at once. It is a further\n\
    statement: it is judged with --all.\n\n\
    To see it tested: Let the client connect with an Authentication Method, and send\n\
    an AUTH before it gets a CONNACK.\n\n\
    In a client: It sends at once what waits, as it may without a method. Hold all\n\
    but AUTH and DISCONNECT back until the CONNACK.\n\n\
    See: MQTT 5.0, section 3.1.2.11.9.\n";

/// The text of `explain A02`.
pub const A02: &str = "A02 both MQTT-4.12.0-7;MQTT-4.12.0-6\n\
    Without an Authentication Method in CONNECT there is no enhanced authentication.\n\n\
    Why: Without a method neither end knows what an AUTH means; only a CONNECT can\n\
    begin enhanced authentication.\n\n\
    Judged: At an AUTH, or a server's CONNACK with an Authentication Method, after a\n\
    CONNECT without one, on every connection. Decided at once. It is a further\n\
    statement: it is judged with --all.\n\n\
    To see it tested: Let the end send an AUTH after the CONNECT, or a server answer\n\
    a CONNECT without an Authentication Method.\n\n\
    In a client: Reauthentication is started on a connection that began without a\n\
    method. Begin it only where the CONNECT named one.\n\
    In a server: The method of its configuration is written into each CONNACK.\n\
    Write it only where the CONNECT named one.\n\n\
    See: MQTT 5.0, section 4.12.\n";

/// The text of `explain A03`.
pub const A03: &str = "A03 both MQTT-4.12.0-5,MQTT-4.12.1-1;MQTT-4.12.0-5\n\
    AUTH and an accepting CONNACK have the Authentication Method of the CONNECT.\n\n\
    Why: The client chooses the method once, by its CONNECT. What follows means\n\
    nothing by another one, and a CONNACK without it says that it wasn't used.\n\n\
    Judged: At an AUTH, or a server's CONNACK of 0x00, after a CONNECT with an\n\
    Authentication Method, on every connection. A fault if its own is missing, or\n\
    isn't the same text, byte for byte. An AUTH of Remaining Length 0 isn't judged:\n\
    it leaves all out, which section 3.15.2.1 allows. Decided at once. It is a\n\
    further statement: it is judged with --all.\n\n\
    To see it tested: Let the client connect with an Authentication Method, and send\n\
    an AUTH, or the server accept the connection.\n\n\
    In a client: The method is written into the CONNECT alone, or another is taken\n\
    to authenticate again. Write that of the CONNECT into each AUTH.\n\
    In a server: The same of its AUTHs, and of the CONNACK with which it accepts.\n\n\
    See: MQTT 5.0, sections 3.15.2.1, 4.12 and 4.12.1.\n";

/// The text of `explain K01`.
pub const K01: &str = "K01 client MQTT-3.1.2-20,MQTT-3.2.2-21\n\
    A client isn't silent for longer than the Keep Alive.\n\n\
    Why: A server takes a silent client for gone, and closes its connection. And a\n\
    client that sends a PINGREQ in time learns in time that the server is gone.\n\n\
    Judged: After the CONNACK of a connection that the server accepted, at the first\n\
    event that comes when the client has sent nothing for longer than 1.25 times the\n\
    Keep Alive and a second, since timers are late. The Keep Alive is the CONNACK's\n\
    Server Keep Alive, or without one that of the CONNECT; if it is 0, nothing is\n\
    judged. The silence begins at the client's last packet, whose bytes may break a\n\
    rule, or at the CONNACK if that came later. Any event may show it, the CLOSE\n\
    too, but neither a packet of more than 65,536 bytes nor a CLOSE that cuts off a\n\
    packet of the client: these may have taken their time. Nothing is judged after a\n\
    DISCONNECT of either end, nor after bytes of the client that can't be cut into\n\
    packets. A silence after which nothing more is in the log passes. Decided at\n\
    once. It is a further statement on times: it is judged with --times, if the\n\
    log's moments are microseconds.\n\n\
    To see it tested: Connect with a Keep Alive of a few seconds, and have nothing\n\
    to send. The PINGREQ tests this, or whatever comes after half the Keep Alive.\n\n\
    In a client: What it receives puts off the PINGREQ, which only what it sends may\n\
    do; or it goes by its own Keep Alive where the CONNACK has another one. Send a\n\
    PINGREQ when nothing was sent for the Keep Alive. If a large packet was being\n\
    sent when something else came, the log doesn't tell.\n\n\
    See: MQTT 5.0, sections 3.1.2.10, 3.2.2.3.14 and 3.12.\n";

/// The text of `explain K02`.
pub const K02: &str = "K02 server MQTT-3.1.2-22,MQTT-3.2.2-22\n\
    A server closes the connection of a client that is silent.\n\n\
    Why: A client may be gone without a CLOSE. Until the server closes the\n\
    connection, it sends to nobody, and the client's Will isn't published.\n\n\
    Judged: After the CONNACK of a connection that the server accepted, at the first\n\
    event that comes when the client has sent nothing for longer than one and a half\n\
    times the Keep Alive, and half of it or 5 seconds more, whichever is longer,\n\
    since servers look now and then. The Keep Alive is the CONNACK's Server Keep\n\
    Alive, or without one that of the CONNECT; if it is 0, nothing is judged. The\n\
    silence begins at the client's last packet, whose bytes may break a rule, or at\n\
    the CONNACK if that came later. Any event may show it, the CLOSE too, but not a\n\
    packet of more than 65,536 bytes, which may have taken its time. Nothing is\n\
    judged after a DISCONNECT of either end, nor after bytes of the client that\n\
    can't be cut into packets. A silence after which nothing more is in the log\n\
    passes. Decided at once. It is a further statement on times: it is judged with\n\
    --times, if the log's moments are microseconds.\n\n\
    To see it tested: Connect with a Keep Alive of a second, send nothing more, and\n\
    wait until the server closes the connection. That CLOSE tests this, or whatever\n\
    comes after one and a half times the Keep Alive.\n\n\
    In a server: What it sends puts off the end, which only what it receives may do;\n\
    or it looks at its connections too seldom. Close the connection after one and a\n\
    half times the Keep Alive, and say why by a DISCONNECT of 0x8D (Keep Alive\n\
    timeout). If each connection is given another time, say so by a Server Keep\n\
    Alive.\n\n\
    See: MQTT 5.0, sections 3.1.2.10, 3.2.2.3.14 and 4.13.1.\n";
