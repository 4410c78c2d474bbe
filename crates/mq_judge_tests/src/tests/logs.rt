//! Logs with the expected report on each, read at once and byte by byte.
use mq_harness::Part::{Close, Open, Recv, Release, Rest, Sent};
use mq_harness::{
    AUTH, CLIENT, CONNACK, CONNACK_RESUMED, CONNECT, CONNECT_AGAIN, CONNECT_ANEW, CONNECT_OF_C,
    DISCONNECT, FAULTY, PASSED, PINGREQ, PINGRESP, PUBACK, PUBCOMP, PUBLISH_ONCE, PUBLISH_TWICE,
    PUBLISH_UNIDENTIFIED, PUBREC, PUBREC_WITHOUT_READERS, PUBREL, Part, REFUSING_CONNACK,
    REFUSING_PUBREC, SERVER, SUBACK, SUBSCRIBE, UNSUBACK, UNSUBSCRIBE, is_reported, log_of,
};
use mq_judge::Outcome;
use std::alloc::{AllocError, Global};
use std::process::Abort;
use std::test::Fail;

// A log's records, and the expected result.
struct Row {
    role: u8,
    parts: &'static [Part],
    outcome: Option<Outcome>,
    report: &'static str,
}

static ROWS: [Row; 27] = [
    // On a connection that resumes the session an identifier is still in use; on one that begins a
    // session it isn't; a connection that the server refuses is in no session, so what comes before
    // and after it is in one session.
    Row {
        role: CLIENT,
        parts: &[
            Open,
            Sent(CONNECT_ANEW),
            Recv(CONNACK),
            Sent(PUBLISH_ONCE),
            Close,
            Open,
            Sent(CONNECT_AGAIN),
            Recv(CONNACK_RESUMED),
            Sent(PUBLISH_ONCE),
        ],
        outcome: FAULTY,
        report: "fault 9 S01 MQTT-2.2.1-3 decided 9 record 9 offset -\nfail 1 faults 9 events\n",
    },
    Row {
        role: SERVER,
        parts: &[
            Open,
            Recv(CONNECT_ANEW),
            Sent(CONNACK),
            Sent(PUBLISH_ONCE),
            Close,
            Open,
            Recv(CONNECT_AGAIN),
            Sent(CONNACK),
            Sent(PUBLISH_ONCE),
        ],
        outcome: FAULTY,
        report: "fault 4 B01 MQTT-3.3.2-3 decided 4 record 4 offset -\n\
            fault 9 B01 MQTT-3.3.2-3 decided 9 record 9 offset -\nfail 2 faults 9 events\n",
    },
    Row {
        role: SERVER,
        parts: &[
            Open,
            Recv(CONNECT_ANEW),
            Sent(CONNACK),
            Sent(PUBLISH_ONCE),
            Close,
            Open,
            Recv(CONNECT_AGAIN),
            Sent(REFUSING_CONNACK),
            Recv(PUBACK),
            Close,
            Open,
            Recv(CONNECT_AGAIN),
            Sent(CONNACK_RESUMED),
            Sent(PUBLISH_ONCE),
        ],
        outcome: FAULTY,
        report: "fault 4 B01 MQTT-3.3.2-3 decided 4 record 4 offset -\n\
            fault 14 S01 MQTT-2.2.1-4 decided 14 record 14 offset -\n\
            fault 14 B01 MQTT-3.3.2-3 decided 14 record 14 offset -\nfail 3 faults 14 events\n",
    },
    // Each of the fifteen packets.
    Row {
        role: CLIENT,
        parts: &[
            Open,
            Sent(CONNECT),
            Recv(AUTH),
            Sent(AUTH),
            Recv(CONNACK),
            Sent(SUBSCRIBE),
            Recv(SUBACK),
            Sent(PUBLISH_ONCE),
            Recv(PUBACK),
            Sent(PUBLISH_TWICE),
            Recv(PUBREC),
            Sent(PUBREL),
            Recv(PUBCOMP),
            Sent(UNSUBSCRIBE),
            Recv(UNSUBACK),
            Sent(PINGREQ),
            Recv(PINGRESP),
            Sent(DISCONNECT),
            Close,
        ],
        outcome: PASSED,
        report: "pass 19 events\n",
    },
    // A PUBREC that refuses sets its identifier free, as a PUBCOMP does; another PUBREC doesn't,
    // nor does a PUBREL.
    Row {
        role: CLIENT,
        parts: &[
            Open,
            Sent(CONNECT),
            Recv(CONNACK),
            Sent(PUBLISH_TWICE),
            Recv(REFUSING_PUBREC),
            Sent(PUBLISH_ONCE),
        ],
        outcome: PASSED,
        report: "pass 6 events\n",
    },
    Row {
        role: CLIENT,
        parts: &[
            Open,
            Sent(CONNECT),
            Recv(CONNACK),
            Sent(PUBLISH_TWICE),
            Recv(PUBREC),
            Sent(PUBREL),
            Recv(PUBCOMP),
            Sent(PUBLISH_ONCE),
        ],
        outcome: PASSED,
        report: "pass 8 events\n",
    },
    Row {
        role: CLIENT,
        parts: &[
            Open,
            Sent(CONNECT),
            Recv(CONNACK),
            Sent(PUBLISH_TWICE),
            Recv(PUBREC),
            Sent(PUBLISH_ONCE),
        ],
        outcome: FAULTY,
        report: "fault 6 S01 MQTT-2.2.1-3 decided 6 record 6 offset -\nfail 1 faults 6 events\n",
    },
    Row {
        role: CLIENT,
        parts: &[
            Open,
            Sent(CONNECT),
            Recv(CONNACK),
            Sent(PUBLISH_TWICE),
            Recv(PUBREC_WITHOUT_READERS),
            Sent(PUBREL),
            Recv(PUBREL),
            Sent(PUBLISH_ONCE),
        ],
        outcome: FAULTY,
        report: "fault 8 S01 MQTT-2.2.1-3 decided 8 record 8 offset -\nfail 1 faults 8 events\n",
    },
    // What the tested end sent sets nothing free.
    Row {
        role: SERVER,
        parts: &[
            Open,
            Recv(CONNECT_OF_C),
            Sent(CONNACK),
            Sent(PUBLISH_ONCE),
            Sent(PUBACK),
            Sent(PUBLISH_ONCE),
        ],
        outcome: FAULTY,
        report: "fault 4 B01 MQTT-3.3.2-3 decided 4 record 4 offset -\n\
            fault 5 E1A MQTT-2.2.1-5 decided 5 record 5 offset -\n\
            fault 6 S01 MQTT-2.2.1-4 decided 6 record 6 offset -\n\
            fault 6 B01 MQTT-3.3.2-3 decided 6 record 6 offset -\nfail 4 faults 6 events\n",
    },
    // On a connection that was refused only the bytes of packets are judged.
    Row {
        role: CLIENT,
        parts: &[
            Open,
            Sent(CONNECT),
            Recv(REFUSING_CONNACK),
            Sent(PUBLISH_ONCE),
            Sent(PUBLISH_ONCE),
        ],
        outcome: PASSED,
        report: "pass 5 events\n",
    },
    Row {
        role: CLIENT,
        parts: &[
            Open,
            Sent(CONNECT),
            Recv(REFUSING_CONNACK),
            Sent(PUBLISH_ONCE),
            Sent(PUBLISH_ONCE),
            Sent(PUBLISH_UNIDENTIFIED),
        ],
        outcome: FAULTY,
        report: "fault 6 W09 sec-2.2.1 decided 6 record 6 offset 5\nfail 1 faults 6 events\n",
    },
    // After an invalid Remaining Length the rest of the direction can't be parsed.
    Row {
        role: CLIENT,
        parts: &[
            Open,
            Sent(CONNECT),
            Recv(CONNACK),
            Sent(b"\x30\xff\xff\xff\xff"),
            Sent(PUBLISH_ONCE),
            Recv(PUBLISH_ONCE),
            Rest,
        ],
        outcome: FAULTY,
        report: "fault 4 W03 MQTT-1.5.5-1 decided 4 record 4 offset 1\nfail 1 faults 6 events\n",
    },
    // Only what the tested end sent is judged.
    Row {
        role: SERVER,
        parts: &[
            Open,
            Recv(CONNECT_OF_C),
            Sent(CONNACK),
            Recv(PUBLISH_UNIDENTIFIED),
            Sent(b"\x41\x02\x00\x01"),
        ],
        outcome: FAULTY,
        report: "fault 5 W01 MQTT-2.1.3-1 decided 5 record 5 offset 0\nfail 1 faults 5 events\n",
    },
    // Before its CONNACK a connection may have any packets.
    Row {
        role: CLIENT,
        parts: &[Open, Sent(CONNECT), Sent(PINGREQ), Sent(DISCONNECT)],
        outcome: PASSED,
        report: "pass 4 events\n",
    },
    Row {
        role: CLIENT,
        parts: &[Open, Sent(CONNECT), Sent(SUBSCRIBE)],
        outcome: PASSED,
        report: "pass 3 events\n",
    },
    Row {
        role: CLIENT,
        parts: &[Open, Sent(CONNECT), Recv(PUBREL)],
        outcome: PASSED,
        report: "pass 3 events\n",
    },
    // A packet may be cut over any records: it belongs to the one that has its last byte.
    Row {
        role: CLIENT,
        parts: &[
            Open,
            Sent(CONNECT),
            Recv(CONNACK),
            Sent(b"\x32"),
            Sent(b"\x07"),
            Sent(b"\x00"),
            Sent(b"\x01"),
            Sent(b"a"),
            Sent(b"\x00"),
            Sent(b"\x00"),
            Sent(b"\x00"),
            Recv(PINGRESP),
            Sent(b"x"),
        ],
        outcome: FAULTY,
        report: "fault 5 W09 sec-2.2.1 decided 5 record 13 offset 5\nfail 1 faults 5 events\n",
    },
    // One record may end a packet and begin another; what the log's end leaves unfinished is no
    // event.
    Row {
        role: CLIENT,
        parts: &[
            Open,
            Sent(CONNECT),
            Recv(b"\x20\x03\x00"),
            Recv(b"\x00\x00\xd0"),
            Recv(b"\x00\xd0\x00\xd0"),
        ],
        outcome: PASSED,
        report: "pass 5 events\n",
    },
    // A CLOSE drops the unfinished packet of each direction; the next connection begins with whole
    // ones.
    Row {
        role: CLIENT,
        parts: &[
            Open,
            Sent(CONNECT),
            Recv(CONNACK),
            Sent(b"\x32\x07\x00\x01a\x00\x00\x00"),
            Recv(b"\xd0"),
            Close,
            Open,
            Sent(CONNECT),
            Recv(CONNACK),
            Sent(PINGREQ),
            Recv(PINGRESP),
            Close,
        ],
        outcome: PASSED,
        report: "pass 10 events\n",
    },
    // A direction is lost only on its connection.
    Row {
        role: CLIENT,
        parts: &[
            Open,
            Sent(CONNECT),
            Recv(CONNACK),
            Sent(b"\x30\xff\xff\xff\xff"),
            Sent(PINGREQ),
            Close,
            Open,
            Sent(CONNECT),
            Recv(CONNACK),
            Sent(PUBLISH_UNIDENTIFIED),
        ],
        outcome: FAULTY,
        report: "fault 4 W03 MQTT-1.5.5-1 decided 4 record 4 offset 1\n\
            fault 9 W09 sec-2.2.1 decided 9 record 10 offset 5\nfail 2 faults 9 events\n",
    },
    // Each connection has a CONNECT and a CONNACK of its own, which may have any code.
    Row {
        role: CLIENT,
        parts: &[
            Open,
            Sent(CONNECT),
            Recv(CONNACK),
            Close,
            Open,
            Sent(PUBLISH_ONCE),
        ],
        outcome: FAULTY,
        report: "fault 6 C02 MQTT-3.1.0-1 decided 6 record 6 offset -\nfail 1 faults 6 events\n",
    },
    Row {
        role: CLIENT,
        parts: &[
            Open,
            Sent(CONNECT),
            Recv(REFUSING_CONNACK),
            Sent(PUBLISH_ONCE),
            Close,
            Open,
            Sent(CONNECT),
            Recv(CONNACK),
            Sent(PUBLISH_ONCE),
        ],
        outcome: PASSED,
        report: "pass 9 events\n",
    },
    Row {
        role: CLIENT,
        parts: &[
            Open,
            Sent(CONNECT_ANEW),
            Recv(CONNACK),
            Sent(PUBLISH_ONCE),
            Close,
            Open,
            Sent(CONNECT_AGAIN),
            Sent(PUBLISH_ONCE),
            Recv(CONNACK),
        ],
        outcome: PASSED,
        report: "pass 9 events\n",
    },
    // A message is released between its PUBREL and its PUBCOMP, or between two connections.
    Row {
        role: CLIENT,
        parts: &[
            Open,
            Sent(CONNECT),
            Recv(CONNACK),
            Recv(PUBLISH_TWICE),
            Sent(PUBREC),
            Recv(PUBREL),
            Release(1),
            Sent(PUBCOMP),
            Close,
        ],
        outcome: PASSED,
        report: "pass 9 events\n",
    },
    Row {
        role: CLIENT,
        parts: &[
            Open,
            Sent(CONNECT),
            Recv(CONNACK),
            Recv(PUBLISH_TWICE),
            Close,
            Release(1),
            Open,
            Sent(CONNECT),
        ],
        outcome: PASSED,
        report: "pass 8 events\n",
    },
    // A RELEASE before the CONNACK isn't judged as long as that doesn't come.
    Row {
        role: CLIENT,
        parts: &[Open, Sent(CONNECT), Release(1)],
        outcome: PASSED,
        report: "pass 3 events\n",
    },
    Row {
        role: CLIENT,
        parts: &[Open, Sent(CONNECT), Recv(CONNACK), Close, Open, Release(1)],
        outcome: PASSED,
        report: "pass 6 events\n",
    },
];

// The bytes of one packet that a client sends after its CONNACK, the rule that they break and
// where, and the statement that its type breaks there, if any.
struct Broken {
    packet: &'static [u8],
    statement: &'static str,
    offset: u8,
    also: Option<&'static str>,
}

static BROKEN: [Broken; 23] = [
    Broken {
        packet: b"\x41\x02\x00\x01",
        statement: "W01 MQTT-2.1.3-1",
        offset: 0,
        also: None,
    },
    Broken {
        packet: b"\x00\x00",
        statement: "W02 sec-2.1.2",
        offset: 0,
        also: None,
    },
    Broken {
        packet: b"\x30\x06\x00\x01a\x80\x00x",
        statement: "W03 MQTT-1.5.5-1",
        offset: 5,
        also: None,
    },
    Broken {
        packet: b"\x30\x04\x00\x01\xff\x00",
        statement: "W04 MQTT-1.5.4-1",
        offset: 2,
        also: None,
    },
    Broken {
        packet: b"\x30\x04\x00\x01\x00\x00",
        statement: "W05 MQTT-1.5.4-2",
        offset: 2,
        also: None,
    },
    Broken {
        packet: b"\xc0\x01\x00",
        statement: "W06 sec-2.1.4",
        offset: 2,
        also: None,
    },
    Broken {
        packet: b"\x30\x07\x00\x01a\xff\xff\xff\x7f",
        statement: "W06 sec-2.1.4",
        offset: 5,
        also: None,
    },
    Broken {
        packet: b"\x36\x07\x00\x01a\x00\x01\x00x",
        statement: "W07 MQTT-3.3.1-4",
        offset: 0,
        also: None,
    },
    Broken {
        packet: b"\x38\x05\x00\x01a\x00x",
        statement: "W08 MQTT-3.3.1-2",
        offset: 0,
        also: None,
    },
    Broken {
        packet: b"\x40\x02\x00\x00",
        statement: "W09 sec-2.2.1",
        offset: 2,
        also: None,
    },
    Broken {
        packet: b"\x30\x08\x00\x01a\x03\x21\x00\x01x",
        statement: "W10 sec-2.2.2.2",
        offset: 6,
        also: None,
    },
    Broken {
        packet: b"\x30\x09\x00\x01a\x04\x01\x00\x01\x00x",
        statement: "W11 sec-2.2.2.2",
        offset: 8,
        also: None,
    },
    Broken {
        packet: b"\x30\x08\x00\x01a\x03\x23\x00\x00x",
        statement: "W12 sec-2.2.2.2",
        offset: 7,
        also: None,
    },
    Broken {
        packet: b"\x40\x03\x00\x01\x01",
        statement: "W13 sec-2.4",
        offset: 4,
        also: None,
    },
    Broken {
        packet: b"\x30\x04\x00\x01#\x00",
        statement: "W14 sec-3.3.2",
        offset: 2,
        also: None,
    },
    Broken {
        packet: b"\x82\x08\x00\x01\x00\x00\x02a#\x00",
        statement: "W15 sec-4.7",
        offset: 5,
        also: None,
    },
    Broken {
        packet: b"\x82\x03\x00\x01\x00",
        statement: "W16 MQTT-3.8.3-2,MQTT-3.10.3-2",
        offset: 5,
        also: None,
    },
    Broken {
        packet: b"\x82\x07\x00\x01\x00\x00\x01a\x03",
        statement: "W17 sec-3.8.3",
        offset: 8,
        also: None,
    },
    Broken {
        packet: b"\x10\x0d\x00\x04MQTX\x05\x02\x00\x3c\x00\x00\x00",
        statement: "W18 sec-3.1.2",
        offset: 2,
        also: Some("C03 sec-3.1"),
    },
    Broken {
        packet: b"\x10\x0d\x00\x04MQTT\x05\x03\x00\x3c\x00\x00\x00",
        statement: "W19 sec-3.1.2",
        offset: 9,
        also: Some("C03 sec-3.1"),
    },
    Broken {
        packet: b"\x20\x03\x02\x00\x00",
        statement: "W20 MQTT-3.2.2-1",
        offset: 2,
        also: Some("C01 sec-2.1.2"),
    },
    Broken {
        packet: b"\x30\x04\x00\x00\x00x",
        statement: "W21 sec-3.3.2",
        offset: 4,
        also: None,
    },
    Broken {
        packet: b"\x30\xff\xff\xff\xff",
        statement: "W03 MQTT-1.5.5-1",
        offset: 1,
        also: None,
    },
];

// Whether the log of a row is judged as the row says.
fn is_row_right(alloc: Global, row: &Row) -> Result<bool, Fail> {
    let log = log_of(alloc, row.role, row.parts)?;
    is_reported(alloc, &log, row.outcome, row.report)
}

// Asserts that the log of each row is.
fn assert_rows(rt: &(impl Abort + AllocGlobal), rows: &[Row]) -> Result<(), Fail> {
    for row in rows {
        assert!(rt; is_row_right(rt.alloc(), row)?, "{}", row.report);
    }
    Ok(())
}

#[test]
fn judges_packets_whole_and_byte_by_byte(rt: HostRuntime) -> Result<(), Fail> {
    assert_rows(&rt, &ROWS)
}

// The report on that packet.
fn report_on(alloc: Global, broken: &Broken) -> Result<String, AllocError> {
    let Broken {
        statement,
        offset,
        ..
    } = broken;
    match broken.also {
        Some(also) => format!(in alloc;
            "fault 4 {statement} decided 4 record 4 offset {offset}\n\
            fault 4 {also} decided 4 record 4 offset -\nfail 2 faults 4 events\n"
        ),
        None => format!(in alloc;
            "fault 4 {statement} decided 4 record 4 offset {offset}\nfail 1 faults 4 events\n"
        ),
    }
}

// Whether the log of a client that sends this packet has that report.
fn is_named(alloc: Global, broken: &Broken) -> Result<bool, Fail> {
    let parts = [Open, Sent(CONNECT), Recv(CONNACK), Sent(broken.packet)];
    let log = log_of(alloc, CLIENT, &parts)?;
    let report = report_on(alloc, broken)?;
    is_reported(alloc, &log, FAULTY, report.as_str())
}

// Asserts that the rule is named that each packet breaks, and where.
fn assert_named(rt: &(impl Abort + AllocGlobal), rows: &[Broken]) -> Result<(), Fail> {
    for broken in rows {
        assert!(rt;
            is_named(rt.alloc(), broken)?,
            "{} {} {:?}",
            broken.statement,
            broken.offset,
            broken.also
        );
    }
    Ok(())
}

#[test]
fn names_the_rule_that_bytes_break(rt: HostRuntime) -> Result<(), Fail> {
    assert_named(&rt, &BROKEN)
}
