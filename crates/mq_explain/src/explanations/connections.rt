//! The texts of `explain` for the statements on the past of a connection (C01 to C23).

/// The text of `explain C01`.
pub const C01: &str = "C01 both sec-2.1.2\n\
    A packet has a type that this end may send.\n\n\
    Why: Each end has packets of its own. CONNECT, SUBSCRIBE, UNSUBSCRIBE and\n\
    PINGREQ come from clients, and CONNACK, SUBACK, UNSUBACK and PINGRESP from\n\
    servers.\n\n\
    Judged: At each packet that is sent, a malformed one too, on every connection.\n\
    Decided at once.\n\n\
    To see it tested: Each packet that this end sends tests it, a malformed one too\n\
    if its type isn't 0.\n\n\
    In a client: Client and server share a dispatcher, and the client answers a\n\
    PINGREQ or a SUBSCRIBE that it should never receive. Close with DISCONNECT 0x82\n\
    (Protocol Error) instead.\n\n\
    In a server: A bridge's client code runs on a connection that the server\n\
    accepted, and sends PINGREQ or SUBSCRIBE there. Keep the two kinds of connection\n\
    apart.\n\n\
    See: MQTT 5.0, section 2.1.2.\n";

/// The text of `explain C02`.
pub const C02: &str = "C02 client MQTT-3.1.0-1\n\
    The first packet that a client sends on a connection is a CONNECT.\n\n\
    Why: The CONNECT says who the client is and what it can do. Until it has come\n\
    the server can't act on anything.\n\n\
    Judged: At the first packet that the client sends on the connection, on every\n\
    connection. Decided at once.\n\n\
    To see it tested: The first thing that the client sends on each connection tests\n\
    it. Let it have messages to send before it is connected.\n\n\
    In a client: A queue of packets that waits for the network is flushed as soon as\n\
    the socket is open, before the CONNECT. Put the CONNECT at the front, and open\n\
    the queue afterwards.\n\n\
    See: MQTT 5.0, section 3.1.\n";

/// The text of `explain C03`.
pub const C03: &str = "C03 client sec-3.1\n\
    A client sends only one CONNECT on a connection.\n\n\
    Why: A second CONNECT would change who the client is in the middle of a\n\
    connection, so it is a Protocol Error.\n\n\
    Judged: At each CONNECT after the first one on its connection, on every\n\
    connection. Decided at once.\n\n\
    To see it tested: Each CONNECT from the client tests it. Let the CONNACK come\n\
    late, to see whether it sends another.\n\n\
    In a client: A timer sends the CONNECT again because the CONNACK is late. Close\n\
    the network connection and open a new one instead.\n\n\
    See: MQTT 5.0, section 3.1.\n";

/// The text of `explain C04`.
pub const C04: &str = "C04 server sec-3.2\n\
    A server sends a CONNACK only after a CONNECT was received.\n\n\
    Why: A CONNACK answers a CONNECT, and has nothing to say before it.\n\n\
    Judged: At the CONNACK, on every connection. Decided at once.\n\n\
    To see it tested: Each CONNACK from the server tests it. Open a connection and\n\
    send nothing, or another packet than CONNECT, to see whether it sends one.\n\n\
    In a server: The server writes the CONNACK when it accepts the socket, for\n\
    example to refuse it while busy, or after bytes that aren't a CONNECT. Read the\n\
    CONNECT first, or close without a CONNACK.\n\n\
    See: MQTT 5.0, section 3.2.\n";

/// The text of `explain C05`.
pub const C05: &str = "C05 server MQTT-3.2.0-1\n\
    Before its CONNACK a server sends no packet other than AUTH.\n\n\
    Why: The client learns from the CONNACK whether it is accepted and what it may\n\
    send. AUTH alone may come before it, for extended authentication.\n\n\
    Judged: At each packet other than CONNACK and AUTH that is sent before the\n\
    CONNACK, on every connection. Decided at once.\n\n\
    To see it tested: What the server sends on a connection before its CONNACK tests\n\
    it, and that CONNACK itself, but no AUTH. Resume a session with messages that\n\
    wait to be delivered.\n\n\
    In a server: Queued messages of the session are sent by another task as soon as\n\
    the client is known, before the CONNACK was written. Send the CONNACK first, and\n\
    then attach the session to the connection. A server that can't accept closes\n\
    without a DISCONNECT.\n\n\
    See: MQTT 5.0, section 3.2.\n";

/// The text of `explain C06`.
pub const C06: &str = "C06 server MQTT-3.2.0-2\n\
    A server sends only one CONNACK on a connection.\n\n\
    Why: A connection is accepted or refused once.\n\n\
    Judged: At each CONNACK after the first one on its connection, on every\n\
    connection. Decided at once.\n\n\
    To see it tested: Each CONNACK from the server tests it. Send a second CONNECT,\n\
    to see whether it sends another.\n\n\
    In a server: A second CONNACK answers a second CONNECT, or follows when\n\
    authentication ends after the first one. Keep whether the CONNACK was sent; a\n\
    second CONNECT is a Protocol Error.\n\n\
    See: MQTT 5.0, section 3.2.\n";

/// The text of `explain C07`.
pub const C07: &str = "C07 server MQTT-3.2.2-2\n\
    Session Present is 0 if Clean Start was 1.\n\n\
    Why: Clean Start 1 asks to drop the old session. Session Present 1 would say\n\
    that it goes on.\n\n\
    Judged: At the CONNACK, on every connection. Decided at once.\n\n\
    To see it tested: Connect with Clean Start 1, and let the server answer with a\n\
    CONNACK. It says most where the server has a session to drop.\n\n\
    In a server: Session Present is computed from whether a session was found,\n\
    before Clean Start has removed it. Remove it first, and then look.\n\n\
    See: MQTT 5.0, section 3.2.2.1.1.\n";

/// The text of `explain C08`.
pub const C08: &str = "C08 server MQTT-3.2.2-3\n\
    Session Present is 1 only if the server has a session.\n\n\
    Why: The client trusts Session Present: it goes on with its half of the session.\n\
    If the server has none, messages are lost or identifiers clash.\n\n\
    Judged: At a CONNACK of code 0x00, on every connection. Decided at once. The\n\
    server has a session if the last accepted connection had a Session Expiry\n\
    Interval other than 0, or a later one closed before its CONNACK.\n\n\
    To see it tested: Connect with Clean Start 0 where the server has no session,\n\
    and let it accept; or let it accept with Session Present 1.\n\n\
    In a server: Session Present is set for a Client Identifier that was seen\n\
    before, though the session ended with its connection (Session Expiry Interval\n\
    0). Delete the session's record with the session, and compute the flag from the\n\
    record.\n\n\
    See: MQTT 5.0, section 3.2.2.1.1.\n";

/// The text of `explain C09`.
pub const C09: &str = "C09 server MQTT-3.2.2-6\n\
    Session Present is 0 in a CONNACK that refuses.\n\n\
    Why: A refused client has no session, so the flag must say so.\n\n\
    Judged: At a CONNACK with a code other than 0x00, on every connection. Decided\n\
    at once.\n\n\
    To see it tested: Let the server refuse a connection with a CONNACK, for example\n\
    because of a wrong password. It says most where it has a session of that client.\n\n\
    In a server: The CONNACK is built with the flag of the session that was looked\n\
    up, and the code is set to a refusal afterwards. Write 0 wherever the code isn't\n\
    0x00.\n\n\
    See: MQTT 5.0, section 3.2.2.1.1.\n";

/// The text of `explain C10`.
pub const C10: &str = "C10 server MQTT-3.2.2-16\n\
    A client whose Client Identifier was empty is assigned one.\n\n\
    Why: A client without an identifier must learn the one under which its session\n\
    is kept, to resume it.\n\n\
    Judged: At a CONNACK of code 0x00, on every connection. Decided at once.\n\n\
    To see it tested: Connect with an empty Client Identifier, and let the server\n\
    accept.\n\n\
    In a server: The server makes an identifier for its own tables and forgets to\n\
    write Assigned Client Identifier. Write the property wherever the CONNECT's\n\
    identifier was empty.\n\n\
    See: MQTT 5.0, section 3.2.2.3.7.\n";

/// The text of `explain C11`.
pub const C11: &str = "C11 both MQTT-3.14.4-1\n\
    After a DISCONNECT no packet is sent, and no bytes that break a rule.\n\n\
    Why: A DISCONNECT is the last packet of its sender. What follows may be lost,\n\
    and the peer has stopped listening.\n\n\
    Judged: At each packet, and at bytes that break a rule, sent after a DISCONNECT\n\
    on its connection, on every connection. Decided at once.\n\n\
    To see it tested: Let this end send a DISCONNECT. What it sends after it tests\n\
    this, and so does the CLOSE. Let it have more to send at that moment.\n\n\
    In a client: Another task still writes a PUBLISH or PINGREQ while the connection\n\
    is closed. Let one writer own the socket, and drop what is queued after the\n\
    DISCONNECT.\n\n\
    In a server: Deliveries or a PINGRESP are still written by another task while\n\
    the connection is closed. Let one writer own the socket, and drop what is queued\n\
    after the DISCONNECT.\n\n\
    See: MQTT 5.0, section 3.14.4.\n";

/// The text of `explain C12`.
pub const C12: &str = "C12 server MQTT-3.2.2-7\n\
    After a CONNACK that refuses a server sends no packet, and no bytes that break a\n\
    rule.\n\n\
    Why: After a refusal there is no connection on which anything could be sent.\n\n\
    Judged: At each packet, and at bytes that break a rule, sent after a CONNACK of\n\
    0x80 or more on its connection, on every connection. Decided at once.\n\n\
    To see it tested: Let the server refuse a connection with a CONNACK of 0x80 or\n\
    more. What it sends after it tests this, and so does the CLOSE.\n\n\
    In a server: The server refuses, but goes on in the code for accepted clients,\n\
    or sends a DISCONNECT too. Close the network connection right after the CONNACK.\n\n\
    See: MQTT 5.0, section 3.2.2.2.\n";

/// The text of `explain C13`.
pub const C13: &str = "C13 client MQTT-3.2.2-4\n\
    A client without a session doesn't resume one: after Session Present 1 it sends\n\
    only a DISCONNECT.\n\n\
    Why: Session Present 1 means that the server continues a session that the client\n\
    doesn't have. The two would disagree on identifiers and messages.\n\n\
    Judged: At each packet other than DISCONNECT that the client sends after a\n\
    CONNACK with Session Present 1, where Clean Start was 1 or it has no session, on\n\
    every connection. Decided at once.\n\n\
    To see it tested: Answer the client with Session Present 1 though its Clean\n\
    Start was 1 or it has no session. Each packet that it sends then tests this, and\n\
    so does the CLOSE.\n\n\
    In a client: The client has lost its state, for example after a restart, and\n\
    doesn't look at Session Present. Compare the flag with its own store: if it is 1\n\
    and the store is empty, close the connection, and connect with Clean Start 1.\n\n\
    See: MQTT 5.0, section 3.2.2.1.1.\n";

/// The text of `explain C14`.
pub const C14: &str = "C14 both MQTT-3.2.2-15;MQTT-3.1.2-24\n\
    A packet isn't larger than the peer's Maximum Packet Size.\n\n\
    Why: The peer has said how large a packet it accepts, fixed header and all. A\n\
    larger one is lost, or ends the connection.\n\n\
    Judged: At each packet that is sent, from when the peer has announced Maximum\n\
    Packet Size, on every connection. Decided at once.\n\n\
    To see it tested: Announce a Maximum Packet Size to this end: to a client in the\n\
    CONNACK, to a server in the CONNECT. Each packet that it sends after that tests\n\
    it. Let it have messages that are too large.\n\n\
    In a client: The maximum of the CONNACK isn't stored, or is compared with the\n\
    payload alone. Compare the whole encoded packet, also when one is sent again\n\
    after a reconnect, and refuse it to the application.\n\n\
    In a server: The maximum of the CONNECT isn't checked before a delivery, or is\n\
    compared with the payload alone. Drop a message that is too large as if it had\n\
    been sent, and leave Reason String and User Property out of answers.\n\n\
    See: MQTT 5.0, sections 3.1.2.11.4 and 3.2.2.3.6.\n";

/// The text of `explain C15`.
pub const C15: &str = "C15 both MQTT-3.2.2-17;MQTT-3.1.2-26\n\
    A Topic Alias isn't above the peer's Topic Alias Maximum.\n\n\
    Why: The peer keeps a table of that many aliases. An alias above it has no place\n\
    there, and the default is 0.\n\n\
    Judged: At each PUBLISH with a Topic Alias; for a client after its CONNACK, on\n\
    every connection. Decided at once.\n\n\
    To see it tested: Let this end send a PUBLISH with a Topic Alias, a client after\n\
    its CONNACK. Announce a small Topic Alias Maximum, to a client in the CONNACK,\n\
    to a server in the CONNECT, and let it send to more topics than that.\n\n\
    In a client: The client uses aliases by its own setting, or by the maximum that\n\
    it announced itself. Take the limit from the CONNACK of this connection; without\n\
    the property, send no alias.\n\n\
    In a server: The server uses aliases by its own setting, or by the maximum that\n\
    it announced itself. Take the limit from the CONNECT of this connection; without\n\
    the property, send no alias.\n\n\
    See: MQTT 5.0, sections 3.1.2.11.5 and 3.2.2.3.8.\n";

/// The text of `explain C16`.
pub const C16: &str = "C16 both sec-3.3.2\n\
    A Topic Alias that stands for a Topic Name was set on this connection.\n\n\
    Why: Aliases live as long as the network connection. One that wasn't set on it\n\
    stands for no topic.\n\n\
    Judged: At each PUBLISH with an empty Topic Name, on every connection. Decided\n\
    at once.\n\n\
    To see it tested: Let this end send a PUBLISH with a Topic Alias and an empty\n\
    Topic Name: announce a Topic Alias Maximum, to a client in the CONNACK, to a\n\
    server in the CONNECT, and let it send to one topic several times, also after a\n\
    reconnect.\n\n\
    In a client or a server: The alias table outlives a reconnect, or a PUBLISH that\n\
    was to set the alias was dropped. Clear the table with each connection, and note\n\
    an alias only when its PUBLISH was written.\n\n\
    See: MQTT 5.0, section 3.3.2.3.4.\n";

/// The text of `explain C17`.
pub const C17: &str = "C17 client MQTT-3.2.2-11\n\
    A PUBLISH isn't sent at a QoS above the server's Maximum QoS.\n\n\
    Why: A server with a lower Maximum QoS can't keep the promise of a higher one.\n\n\
    Judged: At each PUBLISH that the client sends, on every connection. Decided at\n\
    once.\n\n\
    To see it tested: Announce a Maximum QoS in the CONNACK. Each PUBLISH that the\n\
    client sends after it tests this. Let it have messages of a higher QoS.\n\n\
    In a client: The Maximum QoS of the CONNACK isn't stored, or messages queued\n\
    before the connection go out unchanged. Check it when a message leaves the\n\
    queue, and refuse or lower it there.\n\n\
    See: MQTT 5.0, section 3.2.2.3.4.\n";

/// The text of `explain C18`.
pub const C18: &str = "C18 client MQTT-3.3.4-6\n\
    A client sends no Subscription Identifier in a PUBLISH.\n\n\
    Why: A Subscription Identifier tells a client by which of its subscriptions a\n\
    message came. From a client it means nothing.\n\n\
    Judged: At each PUBLISH that the client sends, on every connection. Decided at\n\
    once.\n\n\
    To see it tested: Each PUBLISH from the client tests it.\n\n\
    In a client: A message that was received is published again with all its\n\
    properties, as by a bridge. Copy only what a client may send.\n\n\
    See: MQTT 5.0, section 3.3.4.\n";

/// The text of `explain C19`.
pub const C19: &str = "C19 server MQTT-3.14.2-2\n\
    A server sends no Session Expiry Interval in a DISCONNECT.\n\n\
    Why: How long a session lasts is for the client to decide when it leaves.\n\n\
    Judged: At each DISCONNECT that the server sends, on every connection. Decided\n\
    at once.\n\n\
    To see it tested: Let the server send a DISCONNECT: shut it down, or connect a\n\
    second client with the same Client Identifier.\n\n\
    In a server: One encoder serves both ends, and writes the session's expiry into\n\
    each DISCONNECT. Leave the property out on a server.\n\n\
    See: MQTT 5.0, section 3.14.2.2.2.\n";

/// The text of `explain C20`.
pub const C20: &str = "C20 client sec-3.14.2\n\
    A DISCONNECT doesn't change a Session Expiry Interval of 0.\n\n\
    Why: A client whose interval was 0 has told the server to end the session with\n\
    the connection. It can't bring the session back with its DISCONNECT.\n\n\
    Judged: At a DISCONNECT with a Session Expiry Interval other than 0, on every\n\
    connection. Decided at once.\n\n\
    To see it tested: Let the client send a DISCONNECT with a Session Expiry\n\
    Interval other than 0. It says most where the CONNECT had none.\n\n\
    In a client: The DISCONNECT takes its interval from settings, and the CONNECT\n\
    had none. Send the interval in the CONNECT, or leave it out of the DISCONNECT.\n\n\
    See: MQTT 5.0, section 3.14.2.2.2.\n";

/// The text of `explain C21`.
pub const C21: &str = "C21 server MQTT-3.1.2-29\n\
    A client that asked for none gets a Reason String or User Property only in a\n\
    PUBLISH, CONNACK or DISCONNECT.\n\n\
    Why: A client that asked for no problem information may have no room for it.\n\
    PUBLISH, CONNACK and DISCONNECT may carry it anyway.\n\n\
    Judged: At each other packet with a Reason String or a User Property, where\n\
    Request Problem Information was 0, on every connection. Decided at once.\n\n\
    To see it tested: Connect with Request Problem Information 0. Each packet other\n\
    than PUBLISH, CONNACK and DISCONNECT that the server sends tests it. Ask for\n\
    what it refuses.\n\n\
    In a server: Answers such as PUBACK and SUBACK are built with a Reason String\n\
    for all clients. Keep the flag of the CONNECT with the connection, and leave\n\
    both properties out.\n\n\
    See: MQTT 5.0, section 3.1.2.11.7.\n";

/// The text of `explain C22`.
pub const C22: &str = "C22 server MQTT-3.1.2-28\n\
    Response Information is sent only if the client asked for it.\n\n\
    Why: Response Information costs bytes, and is only for clients that build\n\
    Response Topics from it.\n\n\
    Judged: At a CONNACK with Response Information, where Request Response\n\
    Information wasn't 1, on every connection. Decided at once.\n\n\
    To see it tested: Let the server send a CONNACK with Response Information:\n\
    connect with Request Response Information 1. A CONNACK without any doesn't test\n\
    it.\n\n\
    In a server: The property is written from a setting for all clients. Write it\n\
    only where the CONNECT asked with 1; absent means 0.\n\n\
    See: MQTT 5.0, section 3.1.2.11.6.\n";

/// The text of `explain C23`.
pub const C23: &str = "C23 both MQTT-3.14.4-2;MQTT-3.14.4-2,MQTT-3.2.2-7\n\
    An end that sent a DISCONNECT, or a CONNACK that refuses, closes the connection.\n\n\
    Why: The peer waits for the connection to end, and its resources are held until\n\
    then.\n\n\
    Judged: At each REST after the sent DISCONNECT, or a server's CONNACK of 0x80 or\n\
    more, on every connection. Decided at once.\n\n\
    To see it tested: Let this end send a DISCONNECT, or a server a CONNACK of 0x80\n\
    or more. Each REST after it on the connection tests this, and so does the CLOSE.\n\n\
    In a client: The socket is left to the peer or to the operating system after the\n\
    DISCONNECT. Close it as soon as the packet is written.\n\n\
    In a server: The server waits for the client to close after a DISCONNECT or a\n\
    refusal. Close the socket as soon as the packet is written.\n\n\
    See: MQTT 5.0, sections 3.14.4 and 3.2.2.2.\n";
