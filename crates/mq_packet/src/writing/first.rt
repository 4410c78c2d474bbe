//! The first byte of a packet, and the flags in it and in a CONNECT.

ghost use Rattle.std.specs.Prelude.{◌≡◌, ◌≤◌, ◌+◌, ◌*◌, is_some};
ghost use Rattle.std.specs.Option.{option_map};
ghost use Rattle.mq_packet.specs.Reading.{view, will_view};
ghost use Rattle.mq_packet.specs.Canonical.{bit, qos_bits, will_flags, first_byte_of};

use crate::first_bytes::{
    AUTH, CONNACK, CONNECT, DISCONNECT, PINGREQ, PINGRESP, PUBACK, PUBCOMP, PUBLISH, PUBREC,
    PUBREL, SUBACK, SUBSCRIBE, UNSUBACK, UNSUBSCRIBE,
};
use crate::packet::{Connect, Packet, Publish, Qos, Will};
use crate::protocol::{
    CLEAN_START, DUP, PASSWORD, QOS_ONE, RETAIN, USER_NAME, WILL, WILL_QOS_ONE, WILL_RETAIN,
};

// The flag as the bit of this weight.
fn bit(weight: u8, flag: bool) -> u8
    ensures is { result ≡ bit weight flag }
    ensures bound { result ≤ weight }
{
    if flag { weight } else { 0 }
}

// The QoS as two bits, the lower of this weight.
fn qos_bits(weight: u8, qos: Qos) -> u8
    requires { weight ≤ 8 }
    ensures is { result ≡ qos_bits weight qos }
    ensures bound { result ≤ 2 * weight }
{
    match qos {
        Qos::AtMostOnce => 0,
        Qos::AtLeastOnce => weight,
        Qos::ExactlyOnce => 2 * weight,
    }
}

// The Connect Flags of a Will, all 0 without one (MQTT 5.0, sections 3.1.2.5 to 3.1.2.7).
fn will_flags(will: &Option<Will<'_>>) -> u8
    ensures is { result ≡ will_flags (option_map will_view will.now) }
    ensures bound { result ≤ 52 }
{
    match will {
        Some(will) => WILL + qos_bits(WILL_QOS_ONE, will.qos) + bit(WILL_RETAIN, will.retain),
        None => 0,
    }
}

// Whether the text is there, as the User Name Flag says (MQTT 5.0, section 3.1.2.8).
fn is_text(text: Option<&str>) -> bool
    ensures { result ≡ is_some (option_map (λ t. t.now) text.entry) }
{
    text.is_some()
}

// Whether the binary data is there, as the Password Flag says (MQTT 5.0, section 3.1.2.9).
fn is_binary(bytes: Option<&[u8]>) -> bool
    ensures { result ≡ is_some (option_map (λ b. b.now) bytes.entry) }
{
    bytes.is_some()
}

/// The Connect Flags (MQTT 5.0, section 3.1.2.3).
pub fn connect_flags(packet: &Connect<'_>) -> u8
    ensures { result ≡ bit 2 packet.now.clean_start + will_flags (option_map will_view packet.now.will) + bit 64 (is_some (option_map (λ b. b.now) packet.now.password)) + bit 128 (is_some (option_map (λ t. t.now) packet.now.user_name)) }
{
    bit(CLEAN_START, packet.clean_start)
        + will_flags(&packet.will)
        + bit(PASSWORD, is_binary(packet.password))
        + bit(USER_NAME, is_text(packet.user_name))
}

// The first byte of a PUBLISH, whose flags are DUP, QoS and RETAIN (MQTT 5.0, section 3.3.1).
fn publish_first(packet: &Publish<'_>) -> u8
    ensures { result ≡ first_byte_of (view (Packet.Publish packet.now)) }
{
    PUBLISH
        + (bit(DUP, packet.duplicate) + qos_bits(QOS_ONE, packet.qos) + bit(RETAIN, packet.retain))
}

/// The first byte: the packet's type and its flags (MQTT 5.0, section 2.1.1).
pub fn first_byte(packet: &Packet<'_>) -> u8
    ensures { result ≡ first_byte_of (view packet.now) }
{
    match packet {
        Packet::Connect(_) => CONNECT,
        Packet::Connack(_) => CONNACK,
        Packet::Publish(packet) => publish_first(packet),
        Packet::Puback(_) => PUBACK,
        Packet::Pubrec(_) => PUBREC,
        Packet::Pubrel(_) => PUBREL,
        Packet::Pubcomp(_) => PUBCOMP,
        Packet::Subscribe(_) => SUBSCRIBE,
        Packet::Suback(_) => SUBACK,
        Packet::Unsubscribe(_) => UNSUBSCRIBE,
        Packet::Unsuback(_) => UNSUBACK,
        Packet::Pingreq => PINGREQ,
        Packet::Pingresp => PINGRESP,
        Packet::Disconnect(_) => DISCONNECT,
        Packet::Auth(_) => AUTH,
    }
}
