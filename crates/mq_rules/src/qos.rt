//! The number of a Quality of Service.
ghost use Rattle.std.specs.Prelude.{◌≡◌};
ghost use Rattle.mq_rules.specs.Notes.{qos_number};

use mq_packet::Qos;

/// A Quality of Service as its number, 0 to 2 (MQTT 5.0, section 4.3).
#[inline]
pub fn qos_number(qos: Qos) -> u8
    ensures { result ≡ qos_number qos }
{
    match qos {
        Qos::AtMostOnce => 0,
        Qos::AtLeastOnce => 1,
        Qos::ExactlyOnce => 2,
    }
}
