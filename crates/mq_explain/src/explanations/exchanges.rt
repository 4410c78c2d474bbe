//! The texts of `explain` for the statements on exchanges (E1A to E7R).

/// The text of `explain E1A`.
pub const E1A: &str = "E1A both MQTT-2.2.1-5\n\
    A PUBACK answers a PUBLISH of QoS 1.\n\n\
    Why: By a PUBACK the sender drops its message. One that answers nothing may drop\n\
    another message, which then is lost.\n\n\
    Judged: At a PUBACK, on a connection that the server accepted, whose identifier\n\
    has no unanswered PUBLISH of QoS 1 before it: none in the session, or only ones\n\
    that were answered on this connection. Decided at once, or at the CONNACK if\n\
    that comes later. Before a CONNACK it isn't judged if that begins a session\n\
    though the client asked for its own, or resumes one that it couldn't expect.\n\n\
    To see it tested: Each PUBACK from this end tests it. Send it a PUBLISH of QoS\n\
    1.\n\n\
    In a client: A PUBACK is sent twice, once by the library and once by the\n\
    application, or with the identifier of another message. Keep a list of what is\n\
    to be acknowledged, and take each entry out as it is answered.\n\n\
    In a server: A PUBACK is sent for a PUBLISH of QoS 2, or twice after the message\n\
    was queued again. Acknowledge from the entry that the PUBLISH made, and remove\n\
    it.\n\n\
    See: MQTT 5.0, section 2.2.1.\n";

/// The text of `explain E1R`.
pub const E1R: &str = "E1R both MQTT-4.3.2-4\n\
    A PUBLISH of QoS 1 is answered by a PUBACK.\n\n\
    Why: The sender keeps the message, its identifier and a place in the send quota\n\
    until the PUBACK comes.\n\n\
    Judged: At the PUBLISH of QoS 1 that was received, the first unanswered one of\n\
    its identifier; not sending the PUBACK is the fault. Decided at the first\n\
    binding REST on that connection before which it hasn't come. A REST binds after\n\
    the accepting CONNACK, if neither end has sent a DISCONNECT or a malformed\n\
    packet.\n\n\
    To see it tested: Send this end a PUBLISH of QoS 1, under an identifier with no\n\
    unanswered one, and let the log have a binding REST after it on that connection.\n\n\
    In a client: The application's handler throws, or takes the message and never\n\
    acknowledges. Send the PUBACK on every path out of the handler, with a Reason\n\
    Code of 0x80 or more for an error.\n\n\
    In a server: A message without subscribers, or one that is refused, isn't\n\
    acknowledged. Answer every PUBLISH of QoS 1: with 0x10 where nobody subscribes,\n\
    0x87 where it isn't authorized.\n\n\
    See: MQTT 5.0, section 4.3.2.\n";

/// The text of `explain E1O`.
pub const E1O: &str = "E1O client MQTT-4.6.0-2\n\
    A client sends PUBACKs in the order of the PUBLISHes.\n\n\
    Why: A sender may rely on acknowledgements in the order of its messages.\n\n\
    Judged: At a PUBACK, where a PUBLISH of QoS 1 under another identifier came\n\
    earlier on this connection and is still unanswered, on a connection that the\n\
    server accepted. Decided at once, or at the CONNACK if that comes later.\n\n\
    To see it tested: Send the client two PUBLISHes of QoS 1 before it answers the\n\
    first one. The PUBACK that it sends first tests it.\n\n\
    In a client: Handlers run at the same time, and each acknowledges when it ends.\n\
    Put acknowledgements into a queue in the order of arrival, and send one only\n\
    when all before it are ready.\n\n\
    See: MQTT 5.0, section 4.6.\n";

/// The text of `explain E2A`.
pub const E2A: &str = "E2A both MQTT-2.2.1-5\n\
    A PUBREC answers a PUBLISH of QoS 2.\n\n\
    Why: A PUBREC moves the sender to its PUBREL. One that answers nothing does that\n\
    to a message that hasn't arrived.\n\n\
    Judged: At a PUBREC, on a connection that the server accepted, whose identifier\n\
    has no unanswered PUBLISH of QoS 2 before it: none in the session, or only ones\n\
    that were answered on this connection. Decided at once, or at the CONNACK if\n\
    that comes later. Before a CONNACK it isn't judged if that begins a session\n\
    though the client asked for its own, or resumes one that it couldn't expect.\n\n\
    To see it tested: Each PUBREC from this end tests it. Send it a PUBLISH of QoS\n\
    2.\n\n\
    In a client: A PUBREC answers a PUBLISH of QoS 1, or is sent a second time.\n\
    Choose the answer by the QoS of the PUBLISH, and send it once for each.\n\n\
    In a server: A PUBREC answers a PUBLISH of QoS 1, or is sent again after a\n\
    reconnect although no PUBLISH came. Send it only when a PUBLISH of QoS 2\n\
    arrives.\n\n\
    See: MQTT 5.0, section 2.2.1.\n";

/// The text of `explain E2R`.
pub const E2R: &str = "E2R both MQTT-4.3.3-8\n\
    A PUBLISH of QoS 2 is answered by a PUBREC.\n\n\
    Why: Without a PUBREC the sender can't go on: the message stays in flight, and\n\
    its identifier in use.\n\n\
    Judged: At the PUBLISH of QoS 2 that was received, the first unanswered one of\n\
    its identifier; not sending the PUBREC is the fault. Decided at the first\n\
    binding REST on that connection before which it hasn't come. A REST binds after\n\
    the accepting CONNACK, if neither end has sent a DISCONNECT or a malformed\n\
    packet.\n\n\
    To see it tested: Send this end a PUBLISH of QoS 2, under an identifier with no\n\
    unanswered one, and let the log have a binding REST after it on that connection.\n\n\
    In a client: A PUBLISH with DUP 1 of a known identifier is dropped as a\n\
    duplicate, and its PUBREC with it. Drop only the message, and send the PUBREC\n\
    each time.\n\n\
    In a server: A message that is refused, or known already, isn't answered. Send a\n\
    PUBREC for each PUBLISH of QoS 2, with a Reason Code of 0x80 or more where it is\n\
    refused.\n\n\
    See: MQTT 5.0, section 4.3.3.\n";

/// The text of `explain E2O`.
pub const E2O: &str = "E2O client MQTT-4.6.0-3\n\
    A client sends PUBRECs in the order of the PUBLISHes.\n\n\
    Why: A sender may rely on PUBRECs in the order of its messages.\n\n\
    Judged: At a PUBREC, where a PUBLISH of QoS 2 under another identifier came\n\
    earlier on this connection and is still unanswered, on a connection that the\n\
    server accepted. Decided at once, or at the CONNACK if that comes later.\n\n\
    To see it tested: Send the client two PUBLISHes of QoS 2 before it answers the\n\
    first one. The PUBREC that it sends first tests it.\n\n\
    In a client: Messages are stored by several tasks, and each sends its PUBREC\n\
    when done. Put PUBRECs into a queue in the order of arrival.\n\n\
    See: MQTT 5.0, section 4.6.\n";

/// The text of `explain E3A`.
pub const E3A: &str = "E3A both MQTT-2.2.1-5\n\
    A PUBREL answers a PUBREC that accepts.\n\n\
    Why: A PUBREL tells the receiver to release the message and forget the\n\
    identifier. Without an accepting PUBREC the message may not have arrived.\n\n\
    Judged: At a PUBREL, on a connection that the server accepted, whose identifier\n\
    has no unanswered PUBREC below 0x80 before it: none in the session, or only ones\n\
    that were answered on this connection. Decided at once, or at the CONNACK if\n\
    that comes later. Before a CONNACK it isn't judged if that begins a session\n\
    though the client asked for its own, or resumes one that it couldn't expect.\n\n\
    To see it tested: Each PUBREL from this end tests it. Let it send a PUBLISH of\n\
    QoS 2, and answer with a PUBREC below 0x80; answer another one with 0x80 or\n\
    more, to see whether it sends a PUBREL there.\n\n\
    In a client: A PUBREL follows a PUBREC of 0x80 or more, or is sent after a\n\
    reconnect for a message whose PUBREC never came. Look at the Reason Code, and\n\
    keep for each message whether its PUBREC came.\n\n\
    In a server: A PUBREL follows a PUBREC of 0x80 or more, or is sent for each\n\
    delivery after a reconnect. Look at the Reason Code, and keep for each delivery\n\
    whether its PUBREC came.\n\n\
    See: MQTT 5.0, section 2.2.1.\n";

/// The text of `explain E3R`.
pub const E3R: &str = "E3R both MQTT-4.3.3-4\n\
    A PUBREC that accepts is answered by a PUBREL.\n\n\
    Why: The receiver holds the identifier until the PUBREL, and some hold the\n\
    message too.\n\n\
    Judged: At the PUBREC below 0x80 that was received, the first unanswered one of\n\
    its identifier; not sending the PUBREL is the fault. Decided at the first\n\
    binding REST on that connection before which it hasn't come. A REST binds after\n\
    the accepting CONNACK, if neither end has sent a DISCONNECT or a malformed\n\
    packet.\n\n\
    To see it tested: Let this end send a PUBLISH of QoS 2, answer with a PUBREC\n\
    below 0x80, and let the log have a binding REST after it on that connection. A\n\
    PUBREC tests it only if its identifier has no unanswered one.\n\n\
    In a client: A PUBREC of 0x10 (No matching subscribers) is taken for an error,\n\
    or one for an unknown identifier is ignored. Answer every PUBREC below 0x80 with\n\
    a PUBREL, with code 0x92 where the identifier isn't known.\n\n\
    In a server: A PUBREC for a delivery that the server has forgotten, as after a\n\
    restart, is ignored. Answer every PUBREC below 0x80 with a PUBREL, with code\n\
    0x92 where the identifier isn't known.\n\n\
    See: MQTT 5.0, section 4.3.3.\n";

/// The text of `explain E3O`.
pub const E3O: &str = "E3O client MQTT-4.6.0-4\n\
    A client sends PUBRELs in the order of the PUBRECs.\n\n\
    Why: PUBRELs in the order of the PUBRECs keep messages of QoS 2 in order where\n\
    the receiver releases them at the PUBREL.\n\n\
    Judged: At a PUBREL, where a PUBREC under another identifier came earlier on\n\
    this connection and is still unanswered, on a connection that the server\n\
    accepted. Decided at once, or at the CONNACK if that comes later.\n\n\
    To see it tested: Let the client send two PUBLISHes of QoS 2, and send a PUBREC\n\
    below 0x80 for both before it answers the first one. The PUBREL that it sends\n\
    first tests it.\n\n\
    In a client: PUBRELs are sent when a write to the store is done, in whatever\n\
    order that happens. Put them into a queue in the order of the PUBRECs.\n\n\
    See: MQTT 5.0, section 4.6.\n";

/// The text of `explain E4A`.
pub const E4A: &str = "E4A both MQTT-2.2.1-5\n\
    A PUBCOMP answers a PUBREL.\n\n\
    Why: A PUBCOMP frees the identifier. One that answers nothing frees it while the\n\
    peer still uses it.\n\n\
    Judged: At a PUBCOMP, on a connection that the server accepted, whose identifier\n\
    has no unanswered PUBREL before it: none in the session, or only ones that were\n\
    answered on this connection. Decided at once, or at the CONNACK if that comes\n\
    later.\n\n\
    To see it tested: Each PUBCOMP from this end tests it. Send it a PUBLISH of QoS\n\
    2, and after its PUBREC the PUBREL.\n\n\
    In a client: The PUBCOMP is sent right after the PUBREC, or once by the library\n\
    and once by the application. Send it only when a PUBREL comes.\n\n\
    In a server: The PUBCOMP is sent together with the PUBREC, or again after a\n\
    reconnect. Send it only when a PUBREL comes.\n\n\
    See: MQTT 5.0, section 2.2.1.\n";

/// The text of `explain E4R`.
pub const E4R: &str = "E4R both MQTT-4.3.3-11\n\
    A PUBREL is answered by a PUBCOMP.\n\n\
    Why: The sender keeps the identifier and a place in the send quota until the\n\
    PUBCOMP.\n\n\
    Judged: At the PUBREL that was received, the first unanswered one of its\n\
    identifier; not sending the PUBCOMP is the fault. Decided at the first binding\n\
    REST on that connection before which it hasn't come. A REST binds after the\n\
    accepting CONNACK, if neither end has sent a DISCONNECT or a malformed packet.\n\n\
    To see it tested: Send this end a PUBREL, under an identifier with no unanswered\n\
    one, and let the log have a binding REST after it on that connection. A PUBREL\n\
    for an identifier that it doesn't know tests it too.\n\n\
    In a client: A PUBREL for an identifier that is no longer stored is ignored,\n\
    often after a reconnect. Answer it anyway, with code 0x92 (Packet Identifier not\n\
    found).\n\n\
    In a server: A PUBREL for an identifier that the session no longer has is\n\
    ignored. Answer it anyway, with code 0x92 (Packet Identifier not found).\n\n\
    See: MQTT 5.0, section 4.3.3.\n";

/// The text of `explain E5A`.
pub const E5A: &str = "E5A server MQTT-2.2.1-6\n\
    A SUBACK answers a SUBSCRIBE.\n\n\
    Why: An answer to nothing would free an identifier that the peer has just given\n\
    to another packet.\n\n\
    Judged: At a SUBACK, on a connection that the server accepted, whose identifier\n\
    has no unanswered SUBSCRIBE before it: none in the session, or only ones that\n\
    were answered on this connection. Decided at once, or at the CONNACK if that\n\
    comes later.\n\n\
    To see it tested: Each SUBACK from the server tests it. Send it a SUBSCRIBE; one\n\
    with several filters says most.\n\n\
    In a server: A SUBACK is sent for each filter and not for each SUBSCRIBE, or by\n\
    two plugins. Collect the codes of all filters, and answer once.\n\n\
    See: MQTT 5.0, section 2.2.1.\n";

/// The text of `explain E5R`.
pub const E5R: &str = "E5R server MQTT-3.8.4-1\n\
    A SUBSCRIBE is answered by a SUBACK.\n\n\
    Why: Without its SUBACK a client doesn't know whether and at which QoS it is\n\
    subscribed, and can't use the identifier again.\n\n\
    Judged: At the SUBSCRIBE that was received, the first unanswered one of its\n\
    identifier; not sending the SUBACK is the fault. Decided at the first binding\n\
    REST on that connection before which it hasn't come. A REST binds after the\n\
    accepting CONNACK, if neither end has sent a DISCONNECT or a malformed packet.\n\n\
    To see it tested: Send the server a SUBSCRIBE, under an identifier with no\n\
    unanswered one, and let the log have a binding REST after it on that connection.\n\n\
    In a server: A SUBSCRIBE that isn't authorized is dropped without an answer, or\n\
    an asynchronous check never comes back. Answer it with codes of 0x80 or more.\n\n\
    See: MQTT 5.0, section 3.8.4.\n";

/// The text of `explain E6A`.
pub const E6A: &str = "E6A server MQTT-2.2.1-6\n\
    An UNSUBACK answers an UNSUBSCRIBE.\n\n\
    Why: An answer to nothing would free an identifier that the peer has just given\n\
    to another packet.\n\n\
    Judged: At an UNSUBACK, on a connection that the server accepted, whose\n\
    identifier has no unanswered UNSUBSCRIBE before it: none in the session, or only\n\
    ones that were answered on this connection. Decided at once, or at the CONNACK\n\
    if that comes later.\n\n\
    To see it tested: Each UNSUBACK from the server tests it. Send it an\n\
    UNSUBSCRIBE; one with several filters says most.\n\n\
    In a server: An UNSUBACK is sent for each filter and not for each UNSUBSCRIBE.\n\
    Collect the codes of all filters, and answer once.\n\n\
    See: MQTT 5.0, section 2.2.1.\n";

/// The text of `explain E6R`.
pub const E6R: &str = "E6R server MQTT-3.10.4-4\n\
    An UNSUBSCRIBE is answered by an UNSUBACK.\n\n\
    Why: A client waits for the UNSUBACK to know that no new messages are added for\n\
    it, and keeps the identifier until then.\n\n\
    Judged: At the UNSUBSCRIBE that was received, the first unanswered one of its\n\
    identifier; not sending the UNSUBACK is the fault. Decided at the first binding\n\
    REST on that connection before which it hasn't come. A REST binds after the\n\
    accepting CONNACK, if neither end has sent a DISCONNECT or a malformed packet.\n\n\
    To see it tested: Send the server an UNSUBSCRIBE, under an identifier with no\n\
    unanswered one, and let the log have a binding REST after it on that connection.\n\n\
    In a server: Nothing is sent where no subscription matches. Answer anyway, with\n\
    code 0x11 (No subscription existed) for that filter.\n\n\
    See: MQTT 5.0, section 3.10.4.\n";

/// The text of `explain E7R`.
pub const E7R: &str = "E7R server MQTT-3.12.4-1\n\
    A PINGREQ is answered by a PINGRESP.\n\n\
    Why: A client that gets no PINGRESP takes the connection for dead, and closes\n\
    it.\n\n\
    Judged: At a REST that binds and before which fewer PINGRESPs were sent than\n\
    PINGREQs received on its connection. Decided at once, there. A REST binds after\n\
    the accepting CONNACK, if neither end has sent a DISCONNECT or a malformed\n\
    packet.\n\n\
    To see it tested: Send the server a PINGREQ, and let the log have a binding REST\n\
    after it on that connection.\n\n\
    In a server: A PINGREQ only resets the keep-alive timer, or its answer waits\n\
    behind a full queue of deliveries. Write a PINGRESP for each PINGREQ, past the\n\
    queue.\n\n\
    See: MQTT 5.0, section 3.12.4.\n";
