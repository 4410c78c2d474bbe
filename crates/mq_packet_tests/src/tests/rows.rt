//! The rule that a body breaks, and where: one row for each rule, and others on the order in which
//! they are checked.

use super::harness::MAX_BODY;
use mq_packet::PacketRule::*;
use mq_packet::{BodyFault, DecodeFault, Packet, PacketRule, decode};

// Whether a packet isn't read for this fault; or is read, if there is none.
fn is_answered(first: u8, body: &[u8], fault: Option<DecodeFault>) -> bool {
    body.len() <= MAX_BODY && decode(first, body).err() == fault
}

// Whether a packet breaks this rule there.
fn breaks(first: u8, body: &[u8], at: u32, rule: PacketRule) -> bool {
    let broken = DecodeFault::Broken(BodyFault { at, rule });
    is_answered(first, body, Some(broken))
}

// A packet's first byte and body, the place of the byte that breaks a rule, and the rule.
const EACH_RULE: [(u8, &[u8], u32, PacketRule); 21] = [
    // Flags of another type.
    (0x41, &[0x00, 0x01], 0, W01),
    // Type 0.
    (0x00, &[], 0, W02),
    // A property length of two bytes that needs one.
    (0x30, &[0x00, 0x01, 0x61, 0x80, 0x00, 0x78], 5, W03),
    // A Topic Name that isn't UTF-8.
    (0x30, &[0x00, 0x01, 0xff, 0x00], 2, W04),
    // A Topic Name with U+0000.
    (0x30, &[0x00, 0x01, 0x00, 0x00], 2, W05),
    // A byte left over.
    (0xc0, &[0x00], 2, W06),
    // QoS 3.
    (0x36, &[0x00, 0x01, 0x61, 0x00, 0x01, 0x00, 0x78], 0, W07),
    // DUP at QoS 0.
    (0x38, &[0x00, 0x01, 0x61, 0x00, 0x78], 0, W08),
    // Identifier 0.
    (0x32, &[0x00, 0x01, 0x61, 0x00, 0x00, 0x00, 0x78], 5, W09),
    // A property of another packet.
    (
        0x30,
        &[0x00, 0x01, 0x61, 0x03, 0x21, 0x00, 0x01, 0x78],
        6,
        W10,
    ),
    // A property twice.
    (
        0x30,
        &[0x00, 0x01, 0x61, 0x04, 0x01, 0x00, 0x01, 0x00, 0x78],
        8,
        W11,
    ),
    // Topic Alias 0.
    (
        0x30,
        &[0x00, 0x01, 0x61, 0x03, 0x23, 0x00, 0x00, 0x78],
        7,
        W12,
    ),
    // A Reason Code that isn't in the packet's table.
    (0x40, &[0x00, 0x01, 0x01], 4, W13),
    // A wildcard in a Topic Name.
    (0x30, &[0x00, 0x01, 0x23, 0x00], 2, W14),
    // An invalid filter.
    (
        0x82,
        &[0x00, 0x01, 0x00, 0x00, 0x02, 0x61, 0x23, 0x00],
        5,
        W15,
    ),
    // No filter.
    (0x82, &[0x00, 0x01, 0x00], 5, W16),
    // Maximum QoS 3.
    (0x82, &[0x00, 0x01, 0x00, 0x00, 0x01, 0x61, 0x03], 8, W17),
    // Another protocol.
    (
        0x10,
        &[
            0x00, 0x04, 0x4d, 0x51, 0x54, 0x58, 0x05, 0x02, 0x00, 0x3c, 0x00, 0x00, 0x00,
        ],
        2,
        W18,
    ),
    // The reserved Connect Flag.
    (
        0x10,
        &[
            0x00, 0x04, 0x4d, 0x51, 0x54, 0x54, 0x05, 0x03, 0x00, 0x3c, 0x00, 0x00, 0x00,
        ],
        9,
        W19,
    ),
    // A reserved flag of CONNACK.
    (0x20, &[0x02, 0x00, 0x00], 2, W20),
    // Neither Topic Name nor Topic Alias.
    (0x30, &[0x00, 0x00, 0x00, 0x78], 4, W21),
];

const OF_PUBLISH: [(u8, &[u8], u32, PacketRule); 5] = [
    // QoS 3 before all else.
    (0x3e, &[0x00, 0x01, 0x61, 0x00, 0x01, 0x00, 0x78], 0, W07),
    // A property length past the body's end.
    (0x30, &[0x00, 0x01, 0x61, 0xff, 0xff, 0xff, 0x7f], 5, W06),
    // A Response Topic past the list's end.
    (
        0x30,
        &[
            0x00, 0x01, 0x61, 0x05, 0x08, 0x00, 0x03, 0x61, 0x2f, 0x23, 0x78,
        ],
        7,
        W06,
    ),
    // A wildcard in a Response Topic.
    (
        0x30,
        &[0x00, 0x01, 0x61, 0x06, 0x08, 0x00, 0x03, 0x61, 0x2f, 0x23],
        7,
        W14,
    ),
    // An unknown property.
    (0x30, &[0x00, 0x01, 0x61, 0x02, 0x7f, 0x00, 0x78], 6, W10),
];

const OF_LISTS: [(u8, &[u8], u32, PacketRule); 7] = [
    // A Reason Code of PUBACK in a PUBREL.
    (0x62, &[0x00, 0x01, 0x10, 0x00], 4, W13),
    // An empty filter.
    (0xa2, &[0x00, 0x01, 0x00, 0x00, 0x00], 5, W15),
    // No filter to unsubscribe.
    (0xa2, &[0x00, 0x01, 0x00], 5, W16),
    // A Reason Code that SUBACK doesn't have.
    (0x90, &[0x00, 0x01, 0x00, 0x03], 5, W13),
    // Retain Handling 3.
    (0x82, &[0x00, 0x01, 0x00, 0x00, 0x01, 0x61, 0x30], 8, W17),
    // A reserved option.
    (0x82, &[0x00, 0x01, 0x00, 0x00, 0x01, 0x61, 0x40], 8, W17),
    // Options that are missing.
    (0x82, &[0x00, 0x01, 0x00, 0x00, 0x01, 0x61], 8, W06),
];

const OF_CONNECTIONS: [(u8, &[u8], u32, PacketRule); 9] = [
    // Will QoS 3.
    (
        0x10,
        &[
            0x00, 0x04, 0x4d, 0x51, 0x54, 0x54, 0x05, 0x18, 0x00, 0x3c, 0x00, 0x00, 0x00,
        ],
        9,
        W19,
    ),
    // Will QoS without a Will.
    (
        0x10,
        &[
            0x00, 0x04, 0x4d, 0x51, 0x54, 0x54, 0x05, 0x08, 0x00, 0x3c, 0x00, 0x00, 0x00,
        ],
        9,
        W19,
    ),
    // Will Retain without a Will.
    (
        0x10,
        &[
            0x00, 0x04, 0x4d, 0x51, 0x54, 0x54, 0x05, 0x20, 0x00, 0x3c, 0x00, 0x00, 0x00,
        ],
        9,
        W19,
    ),
    // A Reason Code that DISCONNECT doesn't have.
    (0xe0, &[0x01], 2, W13),
    // A Reason Code that AUTH doesn't have.
    (0xf0, &[0x04], 2, W13),
    // A Reason Code that CONNACK doesn't have.
    (0x20, &[0x00, 0x01, 0x00], 3, W13),
    // A byte after the properties.
    (0x40, &[0x00, 0x01, 0x00, 0x00, 0x00], 6, W06),
    // A PUBREL without its flags.
    (0x60, &[0x00, 0x01], 0, W01),
    // Flags of a CONNECT.
    (0x1f, &[], 0, W01),
];

#[test]
fn breaks_rules(rt: HostRuntime) {
    let tables: [&[(u8, &[u8], u32, PacketRule)]; 4] = [
        &EACH_RULE,
        &OF_PUBLISH,
        &OF_LISTS,
        &OF_CONNECTIONS,
    ];
    for table in tables {
        for (first, body, at, rule) in table {
            assert!(rt; breaks(*first, body, *at, *rule), "{first:#x} {body:?}");
        }
    }
}

#[test]
fn names_another_version(rt: HostRuntime) {
    let body = [0, 4, 0x4d, 0x51, 0x54, 0x54, 4, 2, 0, 0x3c, 0, 0];
    assert!(rt; is_answered(0x10, &body, Some(DecodeFault::OtherVersion(4))));
}

const SHORTEST: [(u8, &[u8]); 11] = [
    // A PINGREQ; a CONNECT with only what it must have; a PUBLISH on an empty topic with an alias.
    (0xc0, &[]),
    (0x10, &[0, 4, 0x4d, 0x51, 0x54, 0x54, 5, 0, 0, 0, 0, 0, 0]),
    (0x30, &[0, 0, 3, 0x23, 0, 1]),
    // Acknowledgements, a DISCONNECT and an AUTH that leave out all that they may.
    (0x40, &[0, 1]),
    (0x50, &[0, 1, 0x80]),
    (0x62, &[0, 1, 0, 0]),
    (0xe0, &[]),
    (0xe0, &[0x04]),
    (0xf0, &[]),
    (0xf0, &[0x18]),
    // A SUBACK without Reason Codes.
    (0x90, &[0, 1, 0]),
];

#[test]
fn takes_the_shortest(rt: HostRuntime) {
    for (first, body) in &SHORTEST {
        assert!(rt; is_answered(*first, body, None), "{first:#x} {body:?}");
    }
}

// The Packet Identifier of a PUBACK, and how long its body was.
fn puback_of(body: &[u8]) -> Option<(u16, Option<u32>)> {
    if body.len() > MAX_BODY {
        return None;
    }
    match decode(0x40, body) {
        Ok(Packet::Puback(ack)) => Some((ack.identifier, ack.read_len)),
        _ => None,
    }
}

// How long the body of an AUTH was.
fn auth_length(body: &[u8]) -> Option<u32> {
    if body.len() > MAX_BODY {
        return None;
    }
    match decode(0xf0, body) {
        Ok(Packet::Auth(auth)) => auth.read_len,
        _ => None,
    }
}

#[test]
fn keeps_the_length(rt: HostRuntime) {
    assert_eq!(rt; puback_of(&[0, 1, 0, 0]), Some((1, Some(4))));
    assert_eq!(rt; auth_length(&[]), Some(0));
}
