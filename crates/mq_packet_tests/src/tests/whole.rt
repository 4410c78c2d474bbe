//! A packet of each type with every field and property that it may have, whole and cut at each of
//! its bytes.

use super::harness::MAX_BODY;
use super::packets::{
    AUTH, CONNACK, CONNECT, DISCONNECT, PINGREQ, PINGRESP, PUBACK, PUBCOMP, PUBLISH, PUBREC,
    PUBREL, SUBACK, SUBSCRIBE, UNSUBACK, UNSUBSCRIBE,
};
use mq_packet::decode;

// How many of the body's proper beginnings are a body too; None if it isn't one itself.
fn whole_beginnings(first: u8, body: &[u8]) -> Option<usize> {
    if body.len() > MAX_BODY || decode(first, body).is_err() {
        return None;
    }
    let sizes = (0..body.len()).filter(|size| decode(first, &body[..*size]).is_ok());
    Some(sizes.count())
}

// Each packet, by its name, and how many of its beginnings are a body.
const ROWS: [(&str, (u8, &[u8]), usize); 15] = [
    ("CONNECT", CONNECT, 0),
    ("CONNACK", CONNACK, 0),
    ("PUBLISH", PUBLISH, 7),
    ("PUBACK", PUBACK, 2),
    ("PUBREC", PUBREC, 2),
    ("PUBREL", PUBREL, 2),
    ("PUBCOMP", PUBCOMP, 2),
    ("SUBSCRIBE", SUBSCRIBE, 1),
    ("SUBACK", SUBACK, 3),
    ("UNSUBSCRIBE", UNSUBSCRIBE, 1),
    ("UNSUBACK", UNSUBACK, 2),
    ("PINGREQ", PINGREQ, 0),
    ("PINGRESP", PINGRESP, 0),
    ("DISCONNECT", DISCONNECT, 2),
    ("AUTH", AUTH, 2),
];

// Whether so many beginnings of the packet's body are one.
fn has_whole_beginnings((first, body): (u8, &[u8]), count: usize) -> bool {
    whole_beginnings(first, body) == Some(count)
}

#[test]
fn beginnings(rt: HostRuntime) {
    for (name, packet, count) in &ROWS {
        assert!(rt; has_whole_beginnings(*packet, *count), "{name}");
    }
}
