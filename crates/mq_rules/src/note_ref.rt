//! What is asked of an event, whether a note was made of it or not.
ghost use Rattle.std.specs.Prelude.{◌≡◌, is_some};
ghost use Rattle.mq_rules.specs.Words.{is_some_and};
ghost use Rattle.mq_rules.specs.Identifiers.{taken_by};
ghost use Rattle.mq_rules.specs.Notes as notes;
ghost use Rattle.mq_rules.specs.Notes.{note_in};

use crate::bare::{Bare, BareFields};
use crate::note::{ItemNote, Note, type_number};
use crate::packet_note::{accepted, at_least_once, delivered, exactly_once, refused, succeeded};
use crate::role::Role;
use mq_log::Direction;
use mq_packet::PacketType;

/// An event as it is asked about. Each word on it is that of its note.
#[derive(Clone, Copy)]
pub enum NoteRef<'a> {
    /// By its note.
    Kept(&'a Note),
    /// A bare packet, by its numbers: of most of them no note is made.
    Bare(Bare<'a>),
}

impl NoteRef<'_> {
    /// The Packet Identifier of the PUBREC below 0x80 that the tested end received: it is answered
    /// by a PUBREL (MQTT 5.0, section 4.3.3).
    #[inline(always)]
    #[tactic(auto, unfolding(crate::specs::Notes::note_of_bare))]
    pub fn received_accepting_pubrec(&self) -> Option<u16>
        ensures { result ≡ notes.received_as notes.accepting_pubrec_in (note_in self.now) }
    {
        match self {
            NoteRef::Kept(note) => note.received_accepting_pubrec(),
            NoteRef::Bare(bare) => match bare.direction {
                Direction::Sent => None,
                Direction::Recv => match bare.fields {
                    BareFields::Pubrec { identifier, code } => accepted(identifier, code),
                    _ => None,
                },
            },
        }
    }

    /// The Packet Identifier of the PUBREL that the tested end sent.
    #[inline(always)]
    #[tactic(auto, unfolding(crate::specs::Notes::note_of_bare))]
    pub fn sent_pubrel(&self) -> Option<u16>
        ensures { result ≡ notes.sent_as notes.pubrel_in (note_in self.now) }
    {
        match self {
            NoteRef::Kept(note) => note.sent_pubrel(),
            NoteRef::Bare(bare) => match bare.direction {
                Direction::Sent => match bare.fields {
                    BareFields::Pubrel { identifier, .. } => Some(identifier),
                    _ => None,
                },
                Direction::Recv => None,
            },
        }
    }

    /// Whether a network connection begins.
    #[inline(always)]
    #[tactic(auto, unfolding(crate::specs::Notes::note_of_bare))]
    pub fn is_open(&self) -> bool
        ensures { result ≡ notes.is_open (note_in self.now) }
    {
        match self {
            NoteRef::Kept(note) => note.is_open(),
            NoteRef::Bare(_) => false,
        }
    }

    /// Whether the network connection ends.
    #[inline(always)]
    #[tactic(auto, unfolding(crate::specs::Notes::note_of_bare))]
    pub fn is_close(&self) -> bool
        ensures { result ≡ notes.is_close (note_in self.now) }
    {
        match self {
            NoteRef::Kept(note) => note.is_close(),
            NoteRef::Bare(_) => false,
        }
    }

    /// Whether the tested end is at rest.
    #[inline(always)]
    #[tactic(auto, unfolding(crate::specs::Notes::note_of_bare))]
    pub fn is_rest(&self) -> bool
        ensures { result ≡ notes.is_rest (note_in self.now) }
    {
        match self {
            NoteRef::Kept(note) => note.is_rest(),
            NoteRef::Bare(_) => false,
        }
    }

    /// The Packet Identifier of the QoS 2 message that the tested end released (MQTT 5.0, section
    /// 4.3.3).
    #[inline(always)]
    #[tactic(auto, unfolding(crate::specs::Notes::note_of_bare))]
    pub fn released_identifier(&self) -> Option<u16>
        ensures { result ≡ notes.released_id (note_in self.now) }
    {
        match self {
            NoteRef::Kept(note) => note.released_identifier(),
            NoteRef::Bare(_) => None,
        }
    }

    /// Whether the tested end sent a packet, or bytes that break a rule.
    #[inline(always)]
    #[tactic(auto, unfolding(crate::specs::Notes::note_of_bare))]
    pub fn is_typed_sent(&self) -> bool
        ensures { result ≡ is_some_and notes.is_typed (notes.sent_item (note_in self.now)) }
    {
        match self {
            NoteRef::Kept(note) => note.is_typed_sent(),
            NoteRef::Bare(bare) => bare.is_sent(),
        }
    }

    /// Whether the tested end sent a packet.
    #[inline(always)]
    #[tactic(auto, unfolding(crate::specs::Notes::note_of_bare))]
    pub fn is_packet_sent(&self) -> bool
        ensures { result ≡ is_some (notes.sent_packet (note_in self.now)) }
    {
        match self {
            NoteRef::Kept(note) => matches!(note, Note::Sent(ItemNote::Packet(_))),
            NoteRef::Bare(bare) => bare.is_sent(),
        }
    }

    /// Whether the tested end sent a PUBLISH.
    #[inline(always)]
    #[tactic(auto, unfolding(crate::specs::Notes::note_of_bare))]
    pub fn is_publish_sent(&self) -> bool
        ensures { result ≡ is_some (notes.sent_publish (note_in self.now)) }
    {
        match self {
            NoteRef::Kept(note) => note.sent_publish().is_some(),
            NoteRef::Bare(bare) => bare.is_sent() && bare.fields.is_publish(),
        }
    }

    /// Whether the tested end sent an item of this type.
    #[inline(always)]
    #[tactic(auto, unfolding(crate::specs::Notes::note_of_bare))]
    pub fn sends_type(&self, packet_type: PacketType) -> bool
        ensures { result ≡ notes.sends_type packet_type (note_in self.now) }
    {
        match self {
            NoteRef::Kept(note) => note.sends_type(packet_type),
            NoteRef::Bare(bare) => bare.is_sent()
                && type_number(packet_type) == type_number(bare.fields.kind()),
        }
    }

    /// The Packet Identifier of the PUBLISH of QoS above 0 that the tested end sent (MQTT 5.0,
    /// section 2.2.1).
    #[inline(always)]
    #[tactic(auto, unfolding(crate::specs::Notes::note_of_bare))]
    pub fn delivery(&self) -> Option<u16>
        ensures { result ≡ notes.delivery_of (note_in self.now) }
    {
        match self {
            NoteRef::Kept(note) => note.delivery(),
            NoteRef::Bare(bare) => match bare.direction {
                Direction::Sent => match bare.fields {
                    BareFields::Publish {
                        identifier,
                        qos,
                        ..
                    } => delivered(qos, identifier),
                    _ => None,
                },
                Direction::Recv => None,
            },
        }
    }

    /// The Packet Identifier that the event opens: a new PUBLISH of QoS above 0 is sent (MQTT 5.0,
    /// section 2.2.1).
    #[inline(always)]
    #[tactic(auto, unfolding(crate::specs::Notes::note_of_bare))]
    pub fn opener(&self) -> Option<u16>
        ensures { result ≡ notes.opener_of (note_in self.now) }
    {
        match self {
            NoteRef::Kept(note) => note.opener(),
            NoteRef::Bare(bare) => match bare.direction {
                Direction::Sent => match bare.fields {
                    BareFields::Publish {
                        identifier,
                        qos,
                        duplicate,
                        ..
                    } => if duplicate {
                        None
                    } else {
                        delivered(qos, identifier)
                    },
                    _ => None,
                },
                Direction::Recv => None,
            },
        }
    }

    /// The Packet Identifier of a PUBLISH of QoS above 0 that the tested end sent with DUP 1 (MQTT
    /// 5.0, section 4.4).
    #[inline(always)]
    #[tactic(auto, unfolding(crate::specs::Notes::note_of_bare))]
    pub fn resend(&self) -> Option<u16>
        ensures { result ≡ notes.resend_of (note_in self.now) }
    {
        match self {
            NoteRef::Kept(note) => note.resend(),
            NoteRef::Bare(bare) => match bare.direction {
                Direction::Sent => match bare.fields {
                    BareFields::Publish {
                        identifier,
                        qos,
                        duplicate,
                        ..
                    } => if duplicate {
                        delivered(qos, identifier)
                    } else {
                        None
                    },
                    _ => None,
                },
                Direction::Recv => None,
            },
        }
    }

    /// The Packet Identifier that the event closes: a PUBACK, a PUBCOMP or a refusing PUBREC is
    /// received (MQTT 5.0, section 2.2.1).
    #[inline(always)]
    #[tactic(auto, unfolding(crate::specs::Notes::note_of_bare))]
    pub fn closer(&self) -> Option<u16>
        ensures { result ≡ notes.closer_of (note_in self.now) }
    {
        match self {
            NoteRef::Kept(note) => note.closer(),
            NoteRef::Bare(bare) => match bare.direction {
                Direction::Sent => None,
                Direction::Recv => match bare.fields {
                    BareFields::Puback { identifier, .. }
                    | BareFields::Pubcomp { identifier, .. } => Some(identifier),
                    BareFields::Pubrec { identifier, code } => refused(identifier, code),
                    _ => None,
                },
            },
        }
    }

    /// The Packet Identifier that the event takes: it opens it, or a client sends a SUBSCRIBE or
    /// UNSUBSCRIBE under it (MQTT 5.0, section 2.2.1).
    #[inline(always)]
    #[tactic(auto, unfolding(crate::specs::Notes::note_of_bare))]
    pub fn taken_identifier(&self, role: Role) -> Option<u16>
        ensures { result ≡ taken_by role (note_in self.now) }
    {
        match self {
            NoteRef::Kept(note) => note.taken_identifier(role),
            NoteRef::Bare(_) => self.opener(),
        }
    }

    /// The Packet Identifier of the PUBCOMP of 0x00 that the tested end sent (MQTT 5.0, section
    /// 3.7.2.1).
    #[inline(always)]
    #[tactic(auto, unfolding(crate::specs::Notes::note_of_bare))]
    pub fn sent_success_pubcomp(&self) -> Option<u16>
        ensures { result ≡ notes.sent_as notes.success_pubcomp_in (note_in self.now) }
    {
        match self {
            NoteRef::Kept(note) => note.sent_success_pubcomp(),
            NoteRef::Bare(bare) => match bare.direction {
                Direction::Sent => match bare.fields {
                    BareFields::Pubcomp { identifier, code } => succeeded(identifier, code),
                    _ => None,
                },
                Direction::Recv => None,
            },
        }
    }
}
