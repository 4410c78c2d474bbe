//! Why a property list is invalid, and why a property can't be appended to one.

ghost use Rattle.std.specs.Prelude.{◌≡◌};
ghost use Rattle.mq_props.specs.Faults.{prop_reason_number, push_fault_number};

use mq_wire::{Reason, WireFault};
use thiserror::Error;

/// What is wrong with a property list, in the order in which a property is checked.
#[derive(Debug, Clone, Copy, PartialEq, Eq, Error)]
pub enum PropReason {
    /// A length, an identifier or a value is misspelled, or goes past the list's end (MQTT 5.0,
    /// 1.5).
    #[error(transparent)]
    Wire(Reason),
    /// No property has the identifier (MQTT 5.0, 2.2.2.2).
    #[error("no property has this identifier")]
    Unknown,
    /// The property isn't allowed in this list (MQTT 5.0, 2.2.2.2).
    #[error("the property isn't allowed in this list")]
    NotAllowed,
    /// The property is in the list already, and may be there only once.
    #[error("the property may appear only once in the list")]
    Repeated,
    /// The property may not have this value.
    #[error("the property may not have this value")]
    Value,
    /// The Response Topic of a PUBLISH has a wildcard (MQTT 5.0, 3.3.2.3.5).
    #[error("a Response Topic contains a wildcard")]
    Wildcard,
}

impl PropReason {
    /// Its number, 1 to 6.
    pub fn number(self) -> u8
        ensures { result ≡ prop_reason_number self }
    {
        match self {
            PropReason::Wire(_) => 1,
            PropReason::Unknown => 2,
            PropReason::NotAllowed => 3,
            PropReason::Repeated => 4,
            PropReason::Value => 5,
            PropReason::Wildcard => 6,
        }
    }
}

/// The first invalid field of a property list.
#[derive(Debug, Clone, Copy, PartialEq, Eq, Error)]
#[error("{reason}, at byte {at}")]
pub struct PropFault {
    /// Where the field begins, as the cursor counts: the list's length, a property's identifier or
    /// its value.
    pub at: usize,
    /// What is wrong with it.
    pub reason: PropReason,
}

impl From<WireFault> for PropFault {
    ghost use Rattle.mq_props.specs.Faults.{wire_fault};

    ghost from_gives = { λ fault e. e ≡ wire_fault fault };

    fn from(fault: WireFault) -> PropFault {
        PropFault {
            at: fault.at,
            reason: PropReason::Wire(fault.reason),
        }
    }
}

/// Why a property can't be appended to a list. If several reasons apply, it is the one with the
/// lowest number.
#[derive(Debug, Clone, Copy, PartialEq, Eq, Error)]
pub enum PushFault {
    /// The property isn't allowed in this list (MQTT 5.0, 2.2.2.2).
    #[error("the property isn't allowed in this list")]
    NotAllowed,
    /// The property is in the list already, and may be there only once.
    #[error("the property may appear only once in the list")]
    Repeated,
    /// The property may not have this value: it is out of range, a Response Topic of a PUBLISH with
    /// a wildcard, a text with U+0000, or a number above 268,435,455.
    #[error("the property may not have this value")]
    Value,
    /// A text or binary data has more than 65,535 bytes, or the list would have more than
    /// 268,435,455.
    #[error("the value or the list is too long")]
    TooLong,
    /// The memory for it couldn't be allocated.
    #[error("out of memory")]
    Memory,
}

impl PushFault {
    /// Its number, 1 to 5.
    pub fn number(self) -> u8
        ensures { result ≡ push_fault_number self }
    {
        match self {
            PushFault::NotAllowed => 1,
            PushFault::Repeated => 2,
            PushFault::Value => 3,
            PushFault::TooLong => 4,
            PushFault::Memory => 5,
        }
    }
}
