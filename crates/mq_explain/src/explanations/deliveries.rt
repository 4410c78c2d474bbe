//! The texts of `explain` for the statements on subscriptions (B01 to B04).

/// The text of `explain B01`.
pub const B01: &str = "B01 server MQTT-3.3.2-3\n\
    A PUBLISH from the server matches a subscription.\n\n\
    Why: A client gets only what it asked for.\n\n\
    Judged: At a PUBLISH whose topic matches no filter that was subscribed to in the\n\
    session, on a connection that the server accepted. Decided at once, or at the\n\
    CONNACK if that comes later. A server's PUBLISH with DUP 1 isn't judged, nor any\n\
    in a session that asked for a shared subscription: B08 is for those. A filter\n\
    that was unsubscribed still counts, since messages may be on the way.\n\n\
    To see it tested: Let the server send a PUBLISH with DUP 0, in a session that\n\
    hasn't asked for a shared subscription so far. Publish to topics too that the\n\
    client's filters nearly match.\n\n\
    In a server: The matcher lets # or + match too much, or subscriptions of another\n\
    client or of an ended session are used. Delete subscriptions with their session,\n\
    and match level by level; $ topics don't match a leading wildcard.\n\n\
    See: MQTT 5.0, section 3.3.2.1.\n";

/// The text of `explain B02`.
pub const B02: &str = "B02 server MQTT-3.8.4-8\n\
    A PUBLISH from the server isn't at a QoS above what was granted.\n\n\
    Why: The granted QoS is the most that the client is ready for. A higher one asks\n\
    it for acknowledgements that it didn't expect.\n\n\
    Judged: At a PUBLISH whose QoS is above what was granted to each filter that\n\
    matches its topic, on a connection that the server accepted. Decided at once, or\n\
    at the CONNACK if that comes later. A server's PUBLISH with DUP 1 isn't judged,\n\
    nor any in a session that asked for a shared subscription: B09 is for those.\n\
    Before the SUBACK the QoS that was asked for counts.\n\n\
    To see it tested: Let the server send a PUBLISH of QoS above 0 with DUP 0, in a\n\
    session that hasn't asked for a shared subscription so far. Publish at a QoS\n\
    above what was granted.\n\n\
    In a server: The delivery keeps the publisher's QoS. Send with the smaller one\n\
    of that and the QoS that the SUBACK granted.\n\n\
    See: MQTT 5.0, section 3.8.4.\n";

/// The text of `explain B03`.
pub const B03: &str = "B03 server MQTT-3.8.4-6\n\
    A SUBACK has a Reason Code for each filter.\n\n\
    Why: The client joins codes to filters by their order alone.\n\n\
    Judged: At a SUBACK that hasn't as many Reason Codes as its SUBSCRIBE has\n\
    filters, on a connection that the server accepted. Decided at once, or at the\n\
    CONNACK if that comes later.\n\n\
    To see it tested: Send a SUBSCRIBE; one with several filters says most. The\n\
    SUBACK that answers it tests this.\n\n\
    In a server: Filters that are refused, or equal to one before, get no code.\n\
    Write one code for each filter, in the order of the SUBSCRIBE.\n\n\
    See: MQTT 5.0, section 3.8.4.\n";

/// The text of `explain B04`.
pub const B04: &str = "B04 server sec-3.11.3\n\
    An UNSUBACK has a Reason Code for each filter.\n\n\
    Why: The client joins codes to filters by their order alone.\n\n\
    Judged: At an UNSUBACK that hasn't as many Reason Codes as its UNSUBSCRIBE has\n\
    filters, on a connection that the server accepted. Decided at once, or at the\n\
    CONNACK if that comes later.\n\n\
    To see it tested: Send an UNSUBSCRIBE; one with several filters, some without a\n\
    subscription, says most. The UNSUBACK that answers it tests this.\n\n\
    In a server: No code is written for a filter without a subscription, or the\n\
    UNSUBACK has none at all, as in MQTT 3.1.1. Write one code for each filter:\n\
    0x00, or 0x11 where there was no subscription.\n\n\
    See: MQTT 5.0, section 3.11.3.\n";
