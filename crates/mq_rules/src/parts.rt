//! The parts of a packet without properties, by which it puts rules on its bytes to the test.
ghost use Rattle.std.specs.Prelude.{◌≡◌};
ghost use Rattle.mq_packet.specs.Tries.{is_at_most_once as at_most_once};
ghost use Rattle.mq_rules.specs.Parts.{other_parts, bare_parts};

use crate::bare::BareFields;
use mq_packet::Qos;

/// What of a packet without properties puts rules on bytes to the test: it is a PUBLISH,
/// acknowledges one, or is a ping.
#[derive(Clone, Copy)]
pub struct Parts {
    /// It is a PUBLISH.
    pub publish: bool,
    /// It has a Topic Name that isn't empty.
    pub named: bool,
    /// It is a PUBLISH of QoS 0.
    pub at_most_once: bool,
    /// It has a Packet Identifier.
    pub identified: bool,
    /// A Reason Code is written in it.
    pub coded: bool,
}

impl Parts {
    // Those of what isn't a PUBLISH.
    #[inline(always)]
    fn of_other(identified: bool, coded: bool) -> Parts
        ensures { result ≡ other_parts identified coded }
    {
        Parts {
            publish: false,
            named: false,
            at_most_once: false,
            identified,
            coded,
        }
    }

    /// Those of a packet of this size, by its numbers.
    #[inline(always)]
    pub fn of_bare(size: u32, fields: BareFields<'_>) -> Parts
        ensures { result ≡ bare_parts size fields.entry }
    {
        match fields {
            BareFields::Publish {
                identifier,
                qos,
                topic,
                ..
            } => Parts {
                publish: true,
                named: !topic.is_empty(),
                at_most_once: is_at_most_once(qos),
                identified: identifier.is_some(),
                coded: false,
            },
            BareFields::Puback { .. } => Parts::of_other(true, 4 < size),
            BareFields::Pubrec { .. } => Parts::of_other(true, 4 < size),
            BareFields::Pubrel { .. } => Parts::of_other(true, 4 < size),
            BareFields::Pubcomp { .. } => Parts::of_other(true, 4 < size),
            BareFields::Pingreq => Parts::of_other(false, false),
            BareFields::Pingresp => Parts::of_other(false, false),
        }
    }
}

/// Whether the QoS is 0.
#[inline(always)]
pub fn is_at_most_once(qos: Qos) -> bool
    ensures { result ≡ at_most_once qos }
{
    matches!(qos, Qos::AtMostOnce)
}
