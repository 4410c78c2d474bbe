//! Why bytes aren't a packet.

use crate::rule::PacketRule;
use thiserror::Error;

/// The first rule that a packet's bytes break, and the offset of the field that breaks it.
#[derive(Clone, Copy, Debug, PartialEq, Eq, Error)]
#[error("rule {rule:?} is broken at byte {at}")]
pub struct BodyFault {
    /// The offset of the field in the packet.
    pub at: u32,
    /// The rule that the field breaks.
    pub rule: PacketRule,
}

/// Why bytes aren't a packet.
#[derive(Clone, Copy, Debug, PartialEq, Eq, Error)]
pub enum DecodeFault {
    /// A rule on its bytes is broken.
    #[error(transparent)]
    Broken(BodyFault),
    /// It is a CONNECT of this other protocol version (MQTT 5.0, section 3.1.2.2).
    #[error("a CONNECT of protocol version {0}")]
    OtherVersion(u8),
}
