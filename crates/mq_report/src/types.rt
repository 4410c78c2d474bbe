//! The names of the types of packets.
ghost use Rattle.std.specs.Prelude.{◌≡◌, ◌<◌, ◌/◌};
ghost use Rattle.mq_report.specs.TypeNames.{name_beside, type_names};

/// The name of the type that the first byte of a packet has in its high four bits (MQTT 5.0,
/// section 2.1.2): that of 0, which no packet may have, is `Reserved`.
pub fn type_of(first: u8) -> &'static str
    ensures { result.now ≡ name_beside (first / 16) type_names }
{
    name_of(first / 16)
}

// The name of the type of this number.
fn name_of(number: u8) -> &'static str
    requires { number < 16 }
    ensures { result.now ≡ name_beside number type_names }
{
    match number {
        0 => "Reserved",
        1 => "CONNECT",
        2 => "CONNACK",
        3 => "PUBLISH",
        4 => "PUBACK",
        5 => "PUBREC",
        6 => "PUBREL",
        7 => "PUBCOMP",
        8 => "SUBSCRIBE",
        9 => "SUBACK",
        10 => "UNSUBSCRIBE",
        11 => "UNSUBACK",
        12 => "PINGREQ",
        13 => "PINGRESP",
        14 => "DISCONNECT",
        15 => "AUTH",
        _ => unreachable!(),
    }
}
