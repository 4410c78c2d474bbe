//! The first byte of a packet: its type in bits 7 to 4, and its flags in bits 3 to 0 (MQTT 5.0,
//! sections 2.1.1 to 2.1.3). Reading and writing share the table.

ghost use Rattle.std.specs.Prelude.{◌≡◌};
ghost use Rattle.mq_packet.specs.FirstBytes.{flags_in};

/// CONNECT, with the flags that are reserved for it, as for each type here except PUBLISH.
pub const CONNECT: u8 = 0x10;

/// CONNACK.
pub const CONNACK: u8 = 0x20;

/// PUBLISH without its flags, which are its own.
pub const PUBLISH: u8 = 0x30;

/// PUBACK.
pub const PUBACK: u8 = 0x40;

/// PUBREC.
pub const PUBREC: u8 = 0x50;

/// PUBREL.
pub const PUBREL: u8 = 0x62;

/// PUBCOMP.
pub const PUBCOMP: u8 = 0x70;

/// SUBSCRIBE.
pub const SUBSCRIBE: u8 = 0x82;

/// SUBACK.
pub const SUBACK: u8 = 0x90;

/// UNSUBSCRIBE.
pub const UNSUBSCRIBE: u8 = 0xA2;

/// UNSUBACK.
pub const UNSUBACK: u8 = 0xB0;

/// PINGREQ.
pub const PINGREQ: u8 = 0xC0;

/// PINGRESP.
pub const PINGRESP: u8 = 0xD0;

/// DISCONNECT.
pub const DISCONNECT: u8 = 0xE0;

/// AUTH.
pub const AUTH: u8 = 0xF0;

/// The flags in a first byte.
#[inline(always)]
pub fn flags(first: u8) -> u8
    ensures { result ≡ flags_in first }
{
    first & 0x0F
}
