//! Which packets may carry each Reason Code, against the standard's list of all of them (MQTT 5.0,
//! section 2.4), which is by code and not by packet.

ghost use Rattle.std.specs.Prelude.{◌≤◌, length};
ghost use Rattle.mq_wire.specs.Spellings.{max_varint};

use mq_packet::PacketType::*;
use mq_packet::{BodyFault, DecodeFault, PacketRule, PacketType, decode};

// The Reason Codes that the standard lists, and the packets in which it lists each.
#[rattlefmt::skip]
const LISTED: [(u8, &[PacketType]); 43] = [
    // Success, Normal disconnection, Granted QoS 0
    (0x00, &[Connack, Puback, Pubrec, Pubrel, Pubcomp, Suback, Unsuback, Disconnect, Auth]),
    // Granted QoS 1
    (0x01, &[Suback]),
    // Granted QoS 2
    (0x02, &[Suback]),
    // Disconnect with Will Message
    (0x04, &[Disconnect]),
    // No matching subscribers
    (0x10, &[Puback, Pubrec]),
    // No subscription existed
    (0x11, &[Unsuback]),
    // Continue authentication
    (0x18, &[Auth]),
    // Re-authenticate
    (0x19, &[Auth]),
    // Unspecified error
    (0x80, &[Connack, Puback, Pubrec, Suback, Unsuback, Disconnect]),
    // Malformed Packet
    (0x81, &[Connack, Disconnect]),
    // Protocol Error
    (0x82, &[Connack, Disconnect]),
    // Implementation specific error
    (0x83, &[Connack, Puback, Pubrec, Suback, Unsuback, Disconnect]),
    // Unsupported Protocol Version
    (0x84, &[Connack]),
    // Client Identifier not valid
    (0x85, &[Connack]),
    // Bad User Name or Password
    (0x86, &[Connack]),
    // Not authorized
    (0x87, &[Connack, Puback, Pubrec, Suback, Unsuback, Disconnect]),
    // Server unavailable
    (0x88, &[Connack]),
    // Server busy
    (0x89, &[Connack, Disconnect]),
    // Banned
    (0x8A, &[Connack]),
    // Server shutting down
    (0x8B, &[Disconnect]),
    // Bad authentication method
    (0x8C, &[Connack, Disconnect]),
    // Keep Alive timeout
    (0x8D, &[Disconnect]),
    // Session taken over
    (0x8E, &[Disconnect]),
    // Topic Filter invalid
    (0x8F, &[Suback, Unsuback, Disconnect]),
    // Topic Name invalid
    (0x90, &[Connack, Puback, Pubrec, Disconnect]),
    // Packet Identifier in use
    (0x91, &[Puback, Pubrec, Suback, Unsuback]),
    // Packet Identifier not found
    (0x92, &[Pubrel, Pubcomp]),
    // Receive Maximum exceeded
    (0x93, &[Disconnect]),
    // Topic Alias invalid
    (0x94, &[Disconnect]),
    // Packet too large
    (0x95, &[Connack, Disconnect]),
    // Message rate too high
    (0x96, &[Disconnect]),
    // Quota exceeded
    (0x97, &[Connack, Puback, Pubrec, Suback, Disconnect]),
    // Administrative action
    (0x98, &[Disconnect]),
    // Payload format invalid
    (0x99, &[Connack, Puback, Pubrec, Disconnect]),
    // Retain not supported
    (0x9A, &[Connack, Disconnect]),
    // QoS not supported
    (0x9B, &[Connack, Disconnect]),
    // Use another server
    (0x9C, &[Connack, Disconnect]),
    // Server moved
    (0x9D, &[Connack, Disconnect]),
    // Shared Subscriptions not supported
    (0x9E, &[Suback, Disconnect]),
    // Connection rate exceeded
    (0x9F, &[Connack, Disconnect]),
    // Maximum connect time
    (0xA0, &[Disconnect]),
    // Subscription Identifiers not supported
    (0xA1, &[Suback, Disconnect]),
    // Wildcard Subscriptions not supported
    (0xA2, &[Suback, Disconnect]),
];

// Whether packets of this type may have this Reason Code, by the list.
fn is_listed(code: u8, kind: PacketType) -> bool {
    LISTED
        .iter()
        .any(|(listed, kinds)| *listed == code && kinds.contains(&kind))
}

// Whether the packet is read; or None if it is refused for anything other than its Reason Code at
// this offset.
fn is_taken(first: u8, body: &[u8], at: u32) -> Option<bool>
    requires { length body.now ≤ max_varint }
{
    match decode(first, body) {
        Ok(_) => Some(true),
        Err(DecodeFault::Broken(fault)) => {
            let refused = BodyFault {
                at,
                rule: PacketRule::W13,
            };
            if fault == refused { Some(false) } else { None }
        }
        Err(DecodeFault::OtherVersion(_)) => None,
    }
}

// Whether a packet of this type is read with this Reason Code; None if the type has no Reason Code.
fn is_taken_in(kind: PacketType, code: u8) -> Option<bool> {
    match kind {
        Connack => is_taken(0x20, &[0x00, code, 0x00], 3),
        Puback => is_taken(0x40, &[0x00, 0x01, code], 4),
        Pubrec => is_taken(0x50, &[0x00, 0x01, code], 4),
        Pubrel => is_taken(0x62, &[0x00, 0x01, code], 4),
        Pubcomp => is_taken(0x70, &[0x00, 0x01, code], 4),
        Suback => is_taken(0x90, &[0x00, 0x01, 0x00, code], 5),
        Unsuback => is_taken(0xB0, &[0x00, 0x01, 0x00, code], 5),
        Disconnect => is_taken(0xE0, &[code], 2),
        Auth => is_taken(0xF0, &[code], 2),
        _ => None,
    }
}

const CARRIERS: [PacketType; 9] = [
    Connack, Puback, Pubrec, Pubrel, Pubcomp, Suback, Unsuback, Disconnect, Auth,
];

// The first packet type that takes the code and isn't listed for it, or is listed and doesn't.
fn first_other(code: u8) -> Option<PacketType> {
    CARRIERS.iter().copied().find(|kind| is_taken_in(*kind, code) != Some(is_listed(code, *kind)))
}

#[test]
fn reason_codes_of_each_packet(rt: HostRuntime) {
    for code in 0..=u8::MAX {
        assert_eq!(rt; first_other(code), None, "{code:#04x}");
    }
}
