//! The texts of `explain` for the statements on Packet Identifiers, resends and the send quota (S01
//! to S07).

/// The text of `explain S01`.
pub const S01: &str = "S01 both MQTT-2.2.1-3;MQTT-2.2.1-4\n\
    A new PUBLISH, SUBSCRIBE or UNSUBSCRIBE takes no Packet Identifier that is in\n\
    use.\n\n\
    Why: The peer joins answers to packets by the identifier alone. With two packets\n\
    under one, an answer could be for either.\n\n\
    Judged: At a PUBLISH of QoS above 0 with DUP 0, and a client's SUBSCRIBE or\n\
    UNSUBSCRIBE, on a connection that the server accepted. Decided at once, or at\n\
    the CONNACK if that comes later. An identifier is in use in the whole session\n\
    until a PUBACK, a PUBCOMP or a PUBREC of 0x80 or more; that of a SUBSCRIBE or\n\
    UNSUBSCRIBE until its answer. One without a PUBREC is free too once nothing was\n\
    sent under it on a resumed connection on which the peer announced Maximum Packet\n\
    Size or Maximum QoS: its message may have been discarded. Before a CONNACK that\n\
    resumes a session which the client couldn't expect it isn't judged.\n\n\
    To see it tested: Let this end take an identifier while another is in use: hold\n\
    back an acknowledgement meanwhile. A client takes one for a PUBLISH of QoS above\n\
    0, a SUBSCRIBE and an UNSUBSCRIBE, a server for a PUBLISH of QoS above 0.\n\n\
    In a client: The counter continues or starts over without regard to what is\n\
    unacknowledged, often after a reconnect or a restart. Keep the set of\n\
    identifiers in use with the session's store, and draw only free ones, for all\n\
    three packets from one set. A PUBLISH that is sent again needs DUP 1: with DUP 0\n\
    it counts as a new one, though its identifier is right.\n\n\
    In a server: The counter of deliveries starts anew with each connection though\n\
    the session was resumed. Keep the set of identifiers in use with the session,\n\
    and draw only free ones. What is sent again to a resumed session needs DUP 1.\n\n\
    See: MQTT 5.0, section 2.2.1.\n";

/// The text of `explain S02`.
pub const S02: &str = "S02 both MQTT-4.3.2-2,MQTT-4.3.3-2\n\
    A PUBLISH with DUP 1 was sent before, and isn't acknowledged in its session.\n\n\
    Why: DUP says that this may be a repetition. On a first sending it misleads the\n\
    receiver, and its bookkeeping.\n\n\
    Judged: At a PUBLISH with DUP 1 of QoS above 0, whose identifier isn't open in\n\
    the session and which wasn't sent before on a void connection (refused, or\n\
    closed without a CONNACK), on a connection that the server accepted. Decided at\n\
    once, or at the CONNACK if that comes later. It isn't judged where the end of an\n\
    earlier connection, void or of the session, cut off a PUBLISH of QoS 1 or 2 that\n\
    was being sent; nor where a client sent a PUBLISH under the identifier before\n\
    the CONNACK with which the session began, on an earlier connection. Before a\n\
    CONNACK it isn't judged if that begins a session though the client asked for its\n\
    own, or resumes one that it couldn't expect.\n\n\
    To see it tested: Let this end send a PUBLISH of QoS above 0 again, with DUP 1:\n\
    hold back its acknowledgement, close the connection, and resume the session.\n\
    Close it while no PUBLISH is being sent.\n\n\
    In a client: DUP is set for every message from the queue after a reconnect, also\n\
    for those that never left. Set it only where a PUBLISH was written before; and\n\
    drop a message when its acknowledgement comes.\n\n\
    In a server: DUP is copied from the publisher's packet, or set on deliveries\n\
    that were queued while the client was away. Set it only where this server wrote\n\
    that PUBLISH to this client before.\n\n\
    See: MQTT 5.0, sections 4.3.2 and 4.3.3.\n";

/// The text of `explain S03`.
pub const S03: &str = "S03 both MQTT-4.4.0-1\n\
    A PUBLISH isn't sent again on the same connection.\n\n\
    Why: TCP loses nothing while a connection lasts, so a repetition only makes\n\
    duplicates.\n\n\
    Judged: At a PUBLISH with DUP 1 that was sent on this connection already, with\n\
    no acknowledgement since, on a connection that the server accepted. Decided at\n\
    once, or at the CONNACK if that comes later.\n\n\
    To see it tested: Let this end send a PUBLISH of QoS above 0 again, with DUP 1:\n\
    hold back its acknowledgement, close the connection, and resume the session.\n\
    Hold one back for long on one connection too, to see whether it is sent again\n\
    there.\n\n\
    In a client: A timer sends again what isn't acknowledged in time, as was done in\n\
    MQTT 3.1. Remove the timer, and send again only after a reconnect that resumes\n\
    the session.\n\n\
    In a server: A retry interval sends deliveries again that aren't acknowledged in\n\
    time. Remove it, and send again only after a reconnect that resumes the session.\n\n\
    See: MQTT 5.0, section 4.4.\n";

/// The text of `explain S04`.
pub const S04: &str = "S04 both MQTT-4.3.3-6\n\
    A PUBLISH isn't sent again once its PUBREL was sent.\n\n\
    Why: The PUBREL shows that the receiver has the message. A PUBLISH after it\n\
    could be taken for a new message, and be delivered twice.\n\n\
    Judged: At a PUBLISH with DUP 1 of QoS 2 after whose first sending a PUBREL was\n\
    sent, on a connection that the server accepted. Decided at once, or at the\n\
    CONNACK if that comes later.\n\n\
    To see it tested: Let this end send a PUBLISH of QoS 2 and its PUBREL, hold back\n\
    the PUBCOMP, close the connection, and resume the session. The PUBREL that is\n\
    sent again tests it, and a PUBLISH that is sent again in its place.\n\n\
    In a client: The store keeps the PUBLISH until the PUBCOMP and sends it again\n\
    after a reconnect. When a PUBREC comes, replace it by a mark, so that the PUBREL\n\
    is sent again in its place.\n\n\
    In a server: The session keeps the PUBLISH until the PUBCOMP and sends it again\n\
    after a reconnect. When a PUBREC comes, replace it by a mark, so that the PUBREL\n\
    is sent again in its place.\n\n\
    See: MQTT 5.0, section 4.3.3.\n";

/// The text of `explain S05`.
pub const S05: &str = "S05 client MQTT-4.6.0-1\n\
    A client sends PUBLISHes again in their original order.\n\n\
    Why: Receivers rely on the order of messages, so what is sent again keeps the\n\
    order of the first sending.\n\n\
    Judged: At a PUBLISH with DUP 1, where one that was first sent after it was sent\n\
    again before it on this connection, on a connection that the server accepted.\n\
    Decided at once, or at the CONNACK if that comes later.\n\n\
    To see it tested: Resume a session with two PUBLISHes of QoS above 0 from the\n\
    client unacknowledged. The second one that it sends again tests it, and each\n\
    after that.\n\n\
    In a client: What is unacknowledged is kept in a hash map, or is sorted by\n\
    Packet Identifier. Keep it in a queue in the order of sending; the order of\n\
    identifiers isn't it, since they wrap.\n\n\
    See: MQTT 5.0, section 4.6.\n";

/// The text of `explain S06`.
pub const S06: &str = "S06 both MQTT-4.4.0-1\n\
    Unacknowledged packets are sent again when a session is resumed.\n\n\
    Why: The peer still holds its half of each exchange. What isn't sent again stays\n\
    open for ever: the message is lost and its identifier is never free.\n\n\
    Judged: At the PUBLISH with DUP 0 that was sent on an earlier connection and\n\
    isn't acknowledged. Decided at the first binding REST on a later resumed\n\
    connection on which neither it nor its PUBREL was sent, and nothing that was\n\
    sent waits for its answer. It is excused without a PUBREC, if the send quota is\n\
    used up; if the peer announced Maximum Packet Size or Maximum QoS, there or on a\n\
    resumed connection between on which it wasn't sent either; or if it has RETAIN 1\n\
    and the server announced Retain Available 0.\n\n\
    To see it tested: Resume a session with a PUBLISH of QoS above 0 from this end\n\
    unacknowledged, answer what it sends then, and let the log have a REST on that\n\
    connection.\n\n\
    In a client: The list of unacknowledged messages is in memory and cleared with\n\
    the connection, or it is sent only if Clean Start was 0 and not by Session\n\
    Present. Keep it with the session, and send it when the CONNACK says that the\n\
    session is resumed.\n\n\
    In a server: The deliveries in flight belong to the connection and not to the\n\
    session. Keep them with the session, and send PUBLISHes and PUBRELs again after\n\
    a CONNACK with Session Present 1. Or the server crashed, or was killed, and\n\
    resumes the session from the state that it had saved before: it doesn't know\n\
    what it sent since then, and takes the same identifiers again, so S01 is\n\
    reported too. Save a PUBLISH before it is sent, or answer with Session Present 0\n\
    after a crash.\n\n\
    See: MQTT 5.0, section 4.4.\n";

/// The text of `explain S07`.
pub const S07: &str = "S07 both MQTT-4.9.0-2\n\
    No more PUBLISHes are in flight than the peer's Receive Maximum.\n\n\
    Why: The peer has reserved room for that many unacknowledged messages of QoS 1\n\
    and 2, and may close the connection above it.\n\n\
    Judged: At a PUBLISH of QoS above 0; for a client those after its CONNACK count,\n\
    on a connection that the server accepted. Decided at once, or at the CONNACK if\n\
    that comes later. In flight are PUBLISHes on this connection without a PUBACK, a\n\
    PUBCOMP or a PUBREC of 0x80 or more.\n\n\
    To see it tested: Announce a small Receive Maximum, to a client in the CONNACK,\n\
    to a server in the CONNECT, let this end have more messages of QoS above 0, and\n\
    hold back the acknowledgements. The PUBLISH that takes the last place tests it,\n\
    and each beyond it.\n\n\
    In a client: The Receive Maximum of the CONNACK isn't kept, or what is sent\n\
    again after a reconnect isn't counted. Let one counter per connection gate all\n\
    PUBLISHes of QoS above 0, and count it up again only by PUBACK, PUBCOMP or a\n\
    refusing PUBREC.\n\n\
    In a server: The Receive Maximum of the CONNECT isn't kept, or a PUBREC below\n\
    0x80 already frees a place. Let one counter per connection gate all deliveries\n\
    of QoS above 0, and count it up again only by PUBACK, PUBCOMP or a refusing\n\
    PUBREC.\n\n\
    See: MQTT 5.0, section 4.9.\n";
