//! Why a packet could not be decoded.

ghost use Rattle.std.specs.Prelude.{◌≡◌};
ghost use Rattle.mq_packet.specs.Decoding.{rule_of, list_rule};

use crate::rule::PacketRule;
use mq_props::{PropFault, PropReason};
use mq_wire::{Reason, WireFault};

/// Why a packet could not be decoded.
#[derive(Clone, Copy, Debug)]
pub enum ReadFault {
    /// A field breaks a rule.
    Broken {
        /// The offset of the field in the packet.
        at: usize,
        /// The rule that the field breaks.
        rule: PacketRule,
    },
    /// It is a CONNECT of this other protocol version (MQTT 5.0, section 3.1.2.2).
    OtherVersion(u8),
}

// The rule that a misspelled field breaks.
fn wire_rule(reason: Reason) -> PacketRule
    ensures { result ≡ rule_of reason }
{
    match reason {
        Reason::Short => PacketRule::W06,
        Reason::Overlong => PacketRule::W03,
        Reason::NotUtf8 => PacketRule::W04,
        Reason::Nul => PacketRule::W05,
    }
}

// The rule that a property list breaks.
fn list_rule(reason: PropReason) -> PacketRule
    ensures { result ≡ list_rule reason }
{
    match reason {
        PropReason::Wire(reason) => wire_rule(reason),
        PropReason::Unknown | PropReason::NotAllowed => PacketRule::W10,
        PropReason::Repeated => PacketRule::W11,
        PropReason::Value => PacketRule::W12,
        PropReason::Wildcard => PacketRule::W14,
    }
}

impl From<WireFault> for ReadFault {
    ghost use Rattle.std.specs.Prelude.{◌≡◌};
    ghost use Rattle.mq_packet.specs.Reading.{misspelled};

    ghost from_gives = { λ fault stop. stop ≡ misspelled fault };

    fn from(fault: WireFault) -> ReadFault {
        ReadFault::Broken {
            at: fault.at,
            rule: wire_rule(fault.reason),
        }
    }
}

impl From<PropFault> for ReadFault {
    ghost use Rattle.std.specs.Prelude.{◌≡◌};
    ghost use Rattle.mq_packet.specs.Reading.{bad_list};

    ghost from_gives = { λ fault stop. stop ≡ bad_list fault };

    fn from(fault: PropFault) -> ReadFault {
        ReadFault::Broken {
            at: fault.at,
            rule: list_rule(fault.reason),
        }
    }
}
