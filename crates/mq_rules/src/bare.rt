//! Bare packets, which have no properties that statements look at: most packets of most logs. Their
//! notes take no memory.
ghost use Rattle.std.specs.Prelude.{◌≡◌, ◌≤◌, ℕ, [], false, length, is_some, IsTrue, IfSome};
ghost use Rattle.mq_packet.specs.Entries.{publish as publish_entry};
ghost use Rattle.mq_packet.specs.Reading.{view, publish_view};
ghost use Rattle.mq_log.specs.Events.{packet as packet_item};
ghost use Rattle.mq_log.specs.Flows.{item_event};
ghost use Rattle.mq_log.specs.declared.kind.Direction.{Direction as TheDirection};
ghost use Rattle.mq_rules.specs.Parts.{IsTriedAs};
ghost use Rattle.mq_rules.specs.declared.bare.BareFields.TheVariants as bares;
ghost use Rattle.mq_rules.specs.declared.packet_note.PacketFields.TheVariants as fields_of;
ghost use Rattle.mq_rules.specs.Notes.{fields_type, publish_in, bare_fields, bare_note, bare_publish_note, note_of, kept_topic, is_sent_direction, note_of_bare};

use crate::conversion::{has_noted, nonempty};
use crate::identifier_list::IdentifierList;
use crate::note::{ItemNote, Note};
use crate::packet_note::{PacketFields, PacketNote, PublishNote};
use crate::text::Text;
use mq_log::Direction;
use mq_packet::{Packet, PacketType, Publish, Qos};

/// Whether a PUBLISH that went this way is bare: it has RETAIN 0, no property that is noted, and a
/// Topic Name that is short enough to lie in its note.
#[inline(always)]
pub fn is_bare(direction: Direction, publish: &Publish<'_>) -> bool
    ensures short { IsTrue result → length publish.now.topic.now ≤ 30 }
    ensures note { IsTrue result → (size : ℕ) → bare_note direction size (fields_of.Publish (bare_publish_note direction publish.now.identifier publish.now.qos publish.now.duplicate publish.now.topic.now)) ≡ note_of (item_event direction (packet_item size (publish_entry (publish_view publish.now)))) }
{
    if publish.retain {
        return false;
    }
    if has_noted(direction, nonempty(&publish.properties)) {
        return false;
    }
    Text::is_short(publish.topic)
}

impl Note {
    /// What the statements look at in a bare packet that has these fields.
    #[inline(always)]
    pub fn of_bare(direction: Direction, size: u32, fields: PacketFields) -> Note
        ensures { result ≡ bare_note direction size fields }
    {
        let note = ItemNote::Packet(PacketNote {
            size,
            has_reason_string: false,
            has_user_property: false,
            fields,
        });
        match direction {
            Direction::Sent => Note::Sent(note),
            Direction::Recv => Note::Recv(note),
        }
    }

    /// The note of a bare PUBLISH in this direction that has these fields.
    #[inline(always)]
    pub fn of_bare_publish(
        direction: Direction,
        size: u32,
        identifier: Option<u16>,
        qos: Qos,
        duplicate: bool,
        topic: &str,
    ) -> Note
        requires { length topic.now ≤ 30 }
        ensures { result ≡ bare_note direction size (fields_of.Publish (bare_publish_note direction identifier qos duplicate topic.now)) }
    {
        let topic = match direction {
            Direction::Sent => Text::short(topic),
            Direction::Recv => Text::empty(),
        };
        Note::of_bare(
            direction,
            size,
            PacketFields::Publish(PublishNote {
                identifier,
                qos,
                duplicate,
                retain: false,
                topic,
                topic_alias: None,
                uses_alias: false,
                has_message_expiry: false,
                has_subscription_identifier: false,
                subscription_identifiers: IdentifierList::none(),
            }),
        )
    }
}

/// The fields of a bare packet: of a PUBLISH, of what acknowledges one, or of a ping.
#[derive(Clone, Copy)]
pub enum BareFields<'a> {
    /// PUBLISH.
    Publish {
        /// The Packet Identifier, if the QoS is above 0.
        identifier: Option<u16>,
        /// The Quality of Service.
        qos: Qos,
        /// The DUP flag.
        duplicate: bool,
        /// The Topic Name. One of more than 30 bytes isn't noted.
        topic: &'a str,
    },
    /// PUBACK.
    Puback {
        /// The Packet Identifier of the PUBLISH that it answers.
        identifier: u16,
        /// The Reason Code.
        code: u8,
    },
    /// PUBREC.
    Pubrec {
        /// The Packet Identifier of the PUBLISH that it answers.
        identifier: u16,
        /// The Reason Code: 0x80 or more refuses the PUBLISH.
        code: u8,
    },
    /// PUBREL.
    Pubrel {
        /// The Packet Identifier of the PUBLISH that it is about.
        identifier: u16,
        /// The Reason Code.
        code: u8,
    },
    /// PUBCOMP.
    Pubcomp {
        /// The Packet Identifier of the PUBLISH that it is about.
        identifier: u16,
        /// The Reason Code.
        code: u8,
    },
    /// PINGREQ.
    Pingreq,
    /// PINGRESP.
    Pingresp,
}

impl BareFields<'_> {
    /// The fields of a packet, if it acknowledges a PUBLISH and has no properties, or is a PINGREQ
    /// or PINGRESP.
    #[inline(always)]
    #[tactic(auto, using(crate::proofs::PartsLaws::acknowledgement_tried, crate::proofs::PartsLaws::pingreq_tried, crate::proofs::PartsLaws::pingresp_tried))]
    pub fn of_packet(packet: &Packet<'_>) -> Option<BareFields<'static>>
        ensures note { IfSome result (λ fields. (direction : TheDirection) (size : ℕ) → bare_note direction size (bare_fields direction fields) ≡ note_of (item_event direction (packet_item size (view packet.now)))) }
        ensures tried { IfSome result (λ fields. (size : ℕ) → IsTriedAs size fields (view packet.now)) }
    {
        match packet {
            Packet::Puback(packet) => match nonempty(&packet.properties) {
                Some(_) => None,
                None => Some(BareFields::Puback {
                    identifier: packet.identifier,
                    code: packet.code,
                }),
            },
            Packet::Pubrec(packet) => match nonempty(&packet.properties) {
                Some(_) => None,
                None => Some(BareFields::Pubrec {
                    identifier: packet.identifier,
                    code: packet.code,
                }),
            },
            Packet::Pubrel(packet) => match nonempty(&packet.properties) {
                Some(_) => None,
                None => Some(BareFields::Pubrel {
                    identifier: packet.identifier,
                    code: packet.code,
                }),
            },
            Packet::Pubcomp(packet) => match nonempty(&packet.properties) {
                Some(_) => None,
                None => Some(BareFields::Pubcomp {
                    identifier: packet.identifier,
                    code: packet.code,
                }),
            },
            Packet::Pingreq => Some(BareFields::Pingreq),
            Packet::Pingresp => Some(BareFields::Pingresp),
            _ => None,
        }
    }
}

impl BareFields<'_> {
    /// The packet's type (MQTT 5.0, section 2.1.2).
    #[inline(always)]
    pub fn kind(&self) -> PacketType
        ensures { (direction : TheDirection) → result ≡ fields_type (bare_fields direction self.now) }
    {
        match self {
            BareFields::Publish { .. } => PacketType::Publish,
            BareFields::Puback { .. } => PacketType::Puback,
            BareFields::Pubrec { .. } => PacketType::Pubrec,
            BareFields::Pubrel { .. } => PacketType::Pubrel,
            BareFields::Pubcomp { .. } => PacketType::Pubcomp,
            BareFields::Pingreq => PacketType::Pingreq,
            BareFields::Pingresp => PacketType::Pingresp,
        }
    }

    /// Whether it is a PUBLISH.
    #[inline(always)]
    pub fn is_publish(&self) -> bool
        ensures { (direction : TheDirection) → result ≡ is_some (publish_in (bare_fields direction self.now)) }
    {
        matches!(self, BareFields::Publish { .. })
    }
}

/// A bare packet, by its numbers: one without properties, or a PUBLISH of whose properties no
/// statement looks at any. A watcher that takes it in needs no note.
#[derive(Clone, Copy)]
pub struct Bare<'a> {
    /// Which way it went.
    pub direction: Direction,
    /// How many bytes it has.
    pub size: u32,
    /// Its fields.
    pub fields: BareFields<'a>,
}

// A Topic Name that is short enough to lie in its note; none of any other.
#[inline(always)]
fn kept_topic<'a>(topic: &'a str) -> &'a str
    ensures short { length result.now ≤ 30 }
    ensures exact { result.now ≡ kept_topic topic.now }
{
    if Text::is_short(topic) { topic } else { "" }
}

impl<'a> Bare<'a> {
    /// A bare PUBLISH. It has a short Topic Name, and RETAIN 0.
    #[inline(always)]
    pub fn of_publish(
        direction: Direction,
        size: u32,
        identifier: Option<u16>,
        qos: Qos,
        duplicate: bool,
        topic: &'a str,
    ) -> Bare<'a>
        requires { length topic.now ≤ 30 }
        ensures note { note_of_bare result ≡ bare_note direction size (fields_of.Publish (bare_publish_note direction identifier qos duplicate topic.now)) }
        ensures exact { result ≡ record { direction = direction; size = size; fields = bares.Publish identifier qos duplicate topic.entry } }
    {
        let fields = BareFields::Publish {
            identifier,
            qos,
            duplicate,
            topic,
        };
        Bare {
            direction,
            size,
            fields,
        }
    }

    /// Whether the tested end sent it.
    #[inline(always)]
    pub fn is_sent(&self) -> bool
        ensures { result ≡ is_sent_direction self.now.direction }
    {
        match self.direction {
            Direction::Sent => true,
            Direction::Recv => false,
        }
    }

    /// What the statements look at in it.
    #[inline(always)]
    #[tactic(auto, unfolding(crate::specs::Notes::note_of_bare))]
    pub fn note(self) -> Note
        ensures { result ≡ note_of_bare self.entry }
    {
        match self.fields {
            BareFields::Publish {
                identifier,
                qos,
                duplicate,
                topic,
            } => Note::of_bare_publish(
                self.direction,
                self.size,
                identifier,
                qos,
                duplicate,
                kept_topic(topic),
            ),
            BareFields::Puback { identifier, code } => Note::of_bare(
                self.direction,
                self.size,
                PacketFields::Puback { identifier, code },
            ),
            BareFields::Pubrec { identifier, code } => Note::of_bare(
                self.direction,
                self.size,
                PacketFields::Pubrec { identifier, code },
            ),
            BareFields::Pubrel { identifier, code } => Note::of_bare(
                self.direction,
                self.size,
                PacketFields::Pubrel { identifier, code },
            ),
            BareFields::Pubcomp { identifier, code } => Note::of_bare(
                self.direction,
                self.size,
                PacketFields::Pubcomp { identifier, code },
            ),
            BareFields::Pingreq => {
                Note::of_bare(self.direction, self.size, PacketFields::Pingreq)
            }
            BareFields::Pingresp => {
                Note::of_bare(self.direction, self.size, PacketFields::Pingresp)
            }
        }
    }
}
