//! Why a field could not be read or written.

ghost use Rattle.std.specs.Prelude.{◌≡◌};
ghost use Rattle.mq_wire.specs.Numbers.{reason_number, put_fault_number};

use thiserror::Error;

/// What is wrong with the bytes of a field (MQTT 5.0, 1.5).
#[derive(Debug, Clone, Copy, PartialEq, Eq, Error)]
pub enum Reason {
    /// The bytes end before the field does.
    #[error("the bytes end before the field does")]
    Short,
    /// A Variable Byte Integer has more bytes than its value needs, or a fourth byte that says that
    /// another follows (MQTT 5.0, 1.5.5).
    #[error("a Variable Byte Integer is too long")]
    Overlong,
    /// The bytes of a text aren't well-formed UTF-8 (MQTT 5.0, 1.5.4).
    #[error("a text isn't well-formed UTF-8")]
    NotUtf8,
    /// A text has the character U+0000 (MQTT 5.0, 1.5.4).
    #[error("a text contains the character U+0000")]
    Nul,
}

impl Reason {
    /// Its number, 1 to 4.
    pub fn number(self) -> u8
        ensures { result ≡ reason_number self }
    {
        match self {
            Reason::Short => 1,
            Reason::Overlong => 2,
            Reason::NotUtf8 => 3,
            Reason::Nul => 4,
        }
    }
}

/// A field that is misspelled.
#[derive(Debug, Clone, Copy, PartialEq, Eq, Error)]
#[error("{reason}, at byte {at}")]
pub struct WireFault {
    /// The offset of the field's first byte, as the cursor counts. For a pair of texts, that of the
    /// pair.
    pub at: usize,
    /// What is wrong with it.
    pub reason: Reason,
}

/// Why a field could not be written. If several reasons apply, it is the one with the lowest
/// number.
#[derive(Debug, Clone, Copy, PartialEq, Eq, Error)]
pub enum PutFault {
    /// A text or binary data has more than 65,535 bytes, or a number is over 268,435,455.
    #[error("a value is too long")]
    TooLong,
    /// A text has the character U+0000.
    #[error("a text contains the character U+0000")]
    Nul,
    /// The vector could not grow.
    #[error("out of memory")]
    Memory,
}

impl PutFault {
    /// Its number, 1 to 3.
    pub fn number(self) -> u8
        ensures { result ≡ put_fault_number self }
    {
        match self {
            PutFault::TooLong => 1,
            PutFault::Nul => 2,
            PutFault::Memory => 3,
        }
    }
}
