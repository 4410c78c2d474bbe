//! Which rules packets put to the test, by the bytes of each. The rules that each packet tries
//! (W02, W03 and W06) stand in no row.

use super::harness::{MAX_BODY, whole};
use mq_packet::*;
use std::alloc::Global;
use std::test::Fail;

/// A packet by its first byte and its body, and the rules that it puts to the test.
struct Row {
    first: u8,
    body: &'static [u8],
    tried: &'static str,
}

/// The rules that not every packet tries.
const RULES: [(PacketRule, &str); 18] = [
    (PacketRule::W01, "W01"),
    (PacketRule::W04, "W04"),
    (PacketRule::W05, "W05"),
    (PacketRule::W07, "W07"),
    (PacketRule::W08, "W08"),
    (PacketRule::W09, "W09"),
    (PacketRule::W10, "W10"),
    (PacketRule::W11, "W11"),
    (PacketRule::W12, "W12"),
    (PacketRule::W13, "W13"),
    (PacketRule::W14, "W14"),
    (PacketRule::W15, "W15"),
    (PacketRule::W16, "W16"),
    (PacketRule::W17, "W17"),
    (PacketRule::W18, "W18"),
    (PacketRule::W19, "W19"),
    (PacketRule::W20, "W20"),
    (PacketRule::W21, "W21"),
];

#[rattlefmt::skip]
const PUBLISHES: [Row; 8] = [
    // QoS 0, no properties
    Row { first: 0x30, body: b"\x00\x01a\x00", tried: "W04 W05 W07 W08 W14" },
    // QoS 1; a Topic Alias for the Topic Name
    Row { first: 0x32, body: b"\x00\x00\x00\x01\x03\x23\x00\x05", tried: "W07 W09 W10 W11 W12 W21" },
    // the same with a Response Topic, at QoS 0
    Row { first: 0x30, body: b"\x00\x00\x07\x23\x00\x05\x08\x00\x01a", tried: "W04 W05 W07 W08 W10 W11 W12 W14 W21" },
    // a User Property, which may be repeated
    Row { first: 0x34, body: b"\x00\x01a\x00\x01\x07\x26\x00\x01a\x00\x01b", tried: "W04 W05 W07 W09 W10 W14" },
    // a Subscription Identifier, which may be repeated here and isn't 0
    Row { first: 0x30, body: b"\x00\x01a\x02\x0B\x01", tried: "W04 W05 W07 W08 W10 W12 W14" },
    // a Message Expiry Interval, which has no range
    Row { first: 0x30, body: b"\x00\x01a\x05\x02\x00\x00\x00\x01", tried: "W04 W05 W07 W08 W10 W11 W14" },
    // Correlation Data, which is no text, and a Topic Alias
    Row { first: 0x30, body: b"\x00\x00\x07\x09\x00\x01a\x23\x00\x05", tried: "W07 W08 W10 W11 W12 W21" },
    // the text after what has none
    Row { first: 0x30, body: b"\x00\x00\x08\x23\x00\x05\x03\x00\x02ab", tried: "W04 W05 W07 W08 W10 W11 W12 W21" },
];

#[rattlefmt::skip]
const OTHERS: [Row; 18] = [
    Row { first: 0xC0, body: b"", tried: "W01" },
    Row { first: 0xD0, body: b"", tried: "W01" },
    // a PUBACK that ends after its Packet Identifier, and one with its Reason Code
    Row { first: 0x40, body: b"\x00\x01", tried: "W01 W09" },
    Row { first: 0x40, body: b"\x00\x01\x00", tried: "W01 W09 W13" },
    Row { first: 0x62, body: b"\x00\x01", tried: "W01 W09" },
    Row { first: 0x70, body: b"\x00\x01\x00\x04\x1F\x00\x01a", tried: "W01 W04 W05 W09 W10 W11 W13" },
    // a SUBSCRIBE with a Subscription Identifier, which may not be repeated here; an UNSUBSCRIBE
    Row { first: 0x82, body: b"\x00\x01\x02\x0B\x01\x00\x01a\x00", tried: "W01 W04 W05 W09 W10 W11 W12 W15 W16 W17" },
    Row { first: 0xA2, body: b"\x00\x01\x00\x00\x01a", tried: "W01 W04 W05 W09 W15 W16" },
    // a SUBACK and an UNSUBACK with a Reason Code, and without any
    Row { first: 0x90, body: b"\x00\x01\x00\x00", tried: "W01 W09 W13" },
    Row { first: 0x90, body: b"\x00\x01\x00", tried: "W01 W09" },
    Row { first: 0xB0, body: b"\x00\x01\x00\x11", tried: "W01 W09 W13" },
    // a CONNECT without properties; one with a property of its Will alone
    Row { first: 0x10, body: b"\x00\x04MQTT\x05\x02\x00\x00\x00\x00\x00", tried: "W01 W04 W05 W18 W19" },
    Row { first: 0x10, body: b"\x00\x04MQTT\x05\x06\x00\x00\x00\x00\x00\x05\x18\x00\x00\x00\x01\x00\x01a\x00\x00", tried: "W01 W04 W05 W10 W11 W18 W19" },
    // a CONNACK; one with a Maximum QoS
    Row { first: 0x20, body: b"\x00\x00\x00", tried: "W01 W13 W20" },
    Row { first: 0x20, body: b"\x00\x00\x02\x24\x01", tried: "W01 W10 W11 W12 W13 W20" },
    // a DISCONNECT of its fixed header alone, and one with its Reason Code
    Row { first: 0xE0, body: b"", tried: "W01" },
    Row { first: 0xE0, body: b"\x04", tried: "W01 W13" },
    // an AUTH with an Authentication Method
    Row { first: 0xF0, body: b"\x18\x04\x15\x00\x01a", tried: "W01 W04 W05 W10 W11 W13" },
];

// Whether the packet tries just these rules, and those that each tries.
fn tries_just(packet: &Packet<'_>, size: u32, tried: &str) -> bool {
    for (rule, code) in &RULES {
        if packet.tries(size, *rule) != tried.contains(*code) {
            return false;
        }
    }
    packet.tries(size, PacketRule::W02)
        && packet.tries(size, PacketRule::W03)
        && packet.tries(size, PacketRule::W06)
}

// Whether the row's packet does as it says.
fn holds(alloc: Global, row: &Row) -> Result<bool, Fail> {
    if row.body.len() > MAX_BODY {
        return Ok(false);
    }
    let bytes = whole(alloc, row.first, row.body)?;
    match decode(row.first, row.body) {
        Ok(packet) => Ok(tries_just(&packet, u32::try_from(bytes.len())?, row.tried)),
        Err(_) => Ok(false),
    }
}

#[test]
fn publishes_try_rules(rt: HostRuntime) -> Result<(), Fail> {
    for row in &PUBLISHES {
        let held = holds(rt.alloc(), row)?;
        assert!(rt; held, "{}", row.tried);
    }
    Ok(())
}

#[test]
fn other_packets_try_rules(rt: HostRuntime) -> Result<(), Fail> {
    for row in &OTHERS {
        let held = holds(rt.alloc(), row)?;
        assert!(rt; held, "{}", row.tried);
    }
    Ok(())
}
