//! The texts of `explain` for the statements on releases of QoS 2 messages (L1 to L3).

/// The text of `explain L1`.
pub const L1: &str = "L1 both sec-4.3.3\n\
    Only a QoS 2 message that was received, and whose exchange isn't over, is\n\
    released.\n\n\
    Why: A release hands a message on. One without a message, or after its exchange\n\
    is over, delivers a message twice, or one that never came.\n\n\
    Judged: At a RELEASE. Decided at once; on a connection whose CONNACK hasn't\n\
    come, at the CONNACK or at the CLOSE. This is judged where the log's header says\n\
    that releases are recorded, but not before a CONNACK that begins a session,\n\
    where the message may be of the session before.\n\n\
    To see it tested: Record releases, and let this end receive a message of QoS 2\n\
    and release it: each RELEASE tests it. Send the PUBREL again after a reconnect.\n\n\
    In a client: The message is handed to the application again from the store after\n\
    its PUBCOMP, or after a PUBREC that refused it. Delete the stored message when\n\
    it is handed on, or refused.\n\n\
    In a server: The message is given to subscribers again after the PUBCOMP, or\n\
    though a PUBREC of 0x80 or more refused it. Delete the identifier's entry when\n\
    the exchange ends.\n\n\
    See: MQTT 5.0, section 4.3.3.\n";

/// The text of `explain L2`.
pub const L2: &str = "L2 both MQTT-4.3.3-10\n\
    A QoS 2 message is released once.\n\n\
    Why: Exactly once is the promise of QoS 2. A second release of the same message\n\
    breaks it.\n\n\
    Judged: At the second RELEASE under the identifier in a session, with no PUBCOMP\n\
    and no PUBREC of 0x80 or more between. Decided at once; on a connection whose\n\
    CONNACK hasn't come, at the CONNACK or at the CLOSE. This is judged where the\n\
    log's header says that releases are recorded, but not before a CONNACK that\n\
    begins a session, where the message may be of the session before.\n\n\
    To see it tested: Record releases, and let this end receive a message of QoS 2\n\
    and release it: each RELEASE tests it. Send the PUBLISH again with DUP 1 after a\n\
    reconnect.\n\n\
    In a client: A PUBLISH with DUP 1 is handed on like a new one, or the message\n\
    goes out both at the PUBLISH and at the PUBREL. Keep the identifiers that were\n\
    received, and release a message at one point only.\n\n\
    In a server: A PUBLISH with DUP 1 after a reconnect is routed like a new one.\n\
    Keep the identifiers that were received with the session, and route a message\n\
    only where its identifier is new.\n\n\
    See: MQTT 5.0, section 4.3.3.\n";

/// The text of `explain L3`.
pub const L3: &str = "L3 both sec-4.3.3\n\
    A QoS 2 message is released before its PUBCOMP.\n\n\
    Why: The PUBCOMP makes the sender forget the message. If it wasn't released\n\
    before, nobody has it if this end fails now.\n\n\
    Judged: At a PUBCOMP of code 0x00 for a message of QoS 2 that wasn't released,\n\
    on a connection that the server accepted. Decided at once, or at the CONNACK if\n\
    that comes later. It is excused if the PUBLISH had a Message Expiry Interval, or\n\
    a PUBREC of 0x10 was sent for it. This is judged where the log's header says\n\
    that releases are recorded.\n\n\
    To see it tested: Record releases, and send this end a message of QoS 2 without\n\
    a Message Expiry Interval. Its PUBCOMP of code 0x00 tests it, unless a PUBREC of\n\
    0x10 was sent for the message.\n\n\
    In a client: The PUBCOMP is sent by the network task while the application still\n\
    has the message in its queue. Release it first, and then send the PUBCOMP.\n\n\
    In a server: The PUBCOMP is sent before the message was routed to the\n\
    subscribers. Route it first, or at the PUBREL, and then send the PUBCOMP.\n\n\
    See: MQTT 5.0, section 4.3.3.\n";
