//! Why a packet could not be written.

ghost use Rattle.std.specs.Prelude.{◌≡◌};
ghost use Rattle.mq_packet.specs.Encoding.{fault_number};

use thiserror::Error;

/// Why a packet could not be written. If several reasons apply, it is the one with the lowest
/// number.
#[derive(Clone, Copy, Debug, PartialEq, Eq, Error)]
pub enum EncodeFault {
    /// 1: its Remaining Length would be over 268,435,455 (MQTT 5.0, section 2.1.4).
    #[error("the Remaining Length would be over 268,435,455")]
    TooLong,
    /// 2: the vector could not grow.
    #[error("the vector could not grow")]
    Memory,
}

impl EncodeFault {
    /// Its number, 1 or 2.
    pub fn number(self) -> u8
        ensures { result ≡ fault_number self }
    {
        match self {
            EncodeFault::TooLong => 1,
            EncodeFault::Memory => 2,
        }
    }
}
