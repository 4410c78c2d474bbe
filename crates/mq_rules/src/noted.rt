//! Events as they are taken in: by a note, or by the numbers of a bare packet.
ghost use Rattle.std.specs.Prelude.{◌≡◌};
ghost use Rattle.mq_rules.specs.declared.note.Note.{Note as TheNote};
ghost use Rattle.mq_rules.specs.Notes as notes;
ghost use Rattle.mq_rules.specs.Notes.{note_in, note_of_bare};

use crate::bare::{Bare, BareFields};
use crate::note::Note;
use crate::note_ref::NoteRef;
use crate::packet_note::{accepted, at_least_once, delivered, exactly_once, refused};
use mq_log::Direction;

/// An event to take in. What takes one in is written once, and compiled for each kind: most events
/// are bare packets, of which no note is made. What is asked of many events is a word
/// of its own, so that of the two ways to find the answer only one is compiled.
pub trait Noted {
    /// Its note.
    ghost note: { Self → TheNote };

    /// The event as it is asked about elsewhere.
    fn as_ref(&self) -> NoteRef<'_>
        ensures { note_in result ≡ note self.now };

    /// The Packet Identifier of the PUBLISH of QoS 1 that the tested end received: it is answered
    /// by a PUBACK (MQTT 5.0, section 4.3.2).
    fn received_at_least_once(&self) -> Option<u16>
        ensures { result ≡ notes.received_once_acknowledged (note self.now) };

    /// The Packet Identifier of the PUBACK that the tested end sent.
    fn sent_puback(&self) -> Option<u16>
        ensures { result ≡ notes.sent_as notes.puback_in (note self.now) };

    /// The Packet Identifier of the PUBLISH of QoS 2 that the tested end received: it is answered
    /// by a PUBREC (MQTT 5.0, section 4.3.3).
    fn received_exactly_once(&self) -> Option<u16>
        ensures { result ≡ notes.received_exactly_once (note self.now) };

    /// The Packet Identifier of the PUBREC that the tested end sent.
    fn sent_pubrec(&self) -> Option<u16>
        ensures { result ≡ notes.sent_as notes.pubrec_in (note self.now) };

    /// The Packet Identifier of the PUBREC below 0x80 that the tested end received: it is answered
    /// by a PUBREL (MQTT 5.0, section 4.3.3).
    fn received_accepting_pubrec(&self) -> Option<u16>
        ensures { result ≡ notes.received_as notes.accepting_pubrec_in (note self.now) };

    /// The Packet Identifier of the PUBREL that the tested end sent.
    fn sent_pubrel(&self) -> Option<u16>
        ensures { result ≡ notes.sent_as notes.pubrel_in (note self.now) };

    /// The Packet Identifier of the PUBREL that the tested end received.
    fn received_pubrel(&self) -> Option<u16>
        ensures { result ≡ notes.received_as notes.pubrel_in (note self.now) };

    /// The Packet Identifier of the PUBCOMP that the tested end sent.
    fn sent_pubcomp(&self) -> Option<u16>
        ensures { result ≡ notes.sent_as notes.pubcomp_in (note self.now) };

    /// The Packet Identifier of the SUBSCRIBE that the tested end received.
    fn received_subscribe(&self) -> Option<u16>
        ensures { result ≡ notes.received_as notes.subscribe_in (note self.now) };

    /// The Packet Identifier of the SUBACK that the tested end sent.
    fn sent_suback(&self) -> Option<u16>
        ensures { result ≡ notes.sent_as notes.suback_in (note self.now) };

    /// The Packet Identifier of the UNSUBSCRIBE that the tested end received.
    fn received_unsubscribe(&self) -> Option<u16>
        ensures { result ≡ notes.received_as notes.unsubscribe_in (note self.now) };

    /// The Packet Identifier of the UNSUBACK that the tested end sent.
    fn sent_unsuback(&self) -> Option<u16>
        ensures { result ≡ notes.sent_as notes.unsuback_in (note self.now) };

    /// Whether a network connection begins.
    fn is_open(&self) -> bool
        ensures { result ≡ notes.is_open (note self.now) };

    /// Whether the network connection ends.
    fn is_close(&self) -> bool
        ensures { result ≡ notes.is_close (note self.now) };

    /// Whether the tested end is at rest.
    fn is_rest(&self) -> bool
        ensures { result ≡ notes.is_rest (note self.now) };

    /// The Packet Identifier of the PUBLISH of QoS above 0 that the tested end sent (MQTT 5.0,
    /// section 2.2.1).
    fn delivery(&self) -> Option<u16>
        ensures { result ≡ notes.delivery_of (note self.now) };

    /// The Packet Identifier that the event closes: a PUBACK, a PUBCOMP or a refusing PUBREC is
    /// received (MQTT 5.0, section 2.2.1).
    fn closer(&self) -> Option<u16>
        ensures { result ≡ notes.closer_of (note self.now) };

    /// Whether the tested end received a PINGREQ.
    fn is_received_pingreq(&self) -> bool
        ensures { result ≡ notes.is_received_pingreq (note self.now) };

    /// Whether the tested end sent a PINGRESP.
    fn is_sent_pingresp(&self) -> bool
        ensures { result ≡ notes.is_sent_pingresp (note self.now) };
}

impl Noted for Note {
    ghost note = { λ n. n };

    #[inline(always)]
    fn as_ref(&self) -> NoteRef<'_> {
        NoteRef::Kept(self)
    }

    #[inline(always)]
    fn received_at_least_once(&self) -> Option<u16> {
        Note::received_at_least_once(self)
    }

    #[inline(always)]
    fn sent_puback(&self) -> Option<u16> {
        Note::sent_puback(self)
    }

    #[inline(always)]
    fn received_exactly_once(&self) -> Option<u16> {
        Note::received_exactly_once(self)
    }

    #[inline(always)]
    fn sent_pubrec(&self) -> Option<u16> {
        Note::sent_pubrec(self)
    }

    #[inline(always)]
    fn received_accepting_pubrec(&self) -> Option<u16> {
        Note::received_accepting_pubrec(self)
    }

    #[inline(always)]
    fn sent_pubrel(&self) -> Option<u16> {
        Note::sent_pubrel(self)
    }

    #[inline(always)]
    fn received_pubrel(&self) -> Option<u16> {
        Note::received_pubrel(self)
    }

    #[inline(always)]
    fn sent_pubcomp(&self) -> Option<u16> {
        Note::sent_pubcomp(self)
    }

    #[inline(always)]
    fn received_subscribe(&self) -> Option<u16> {
        Note::received_subscribe(self)
    }

    #[inline(always)]
    fn sent_suback(&self) -> Option<u16> {
        Note::sent_suback(self)
    }

    #[inline(always)]
    fn received_unsubscribe(&self) -> Option<u16> {
        Note::received_unsubscribe(self)
    }

    #[inline(always)]
    fn sent_unsuback(&self) -> Option<u16> {
        Note::sent_unsuback(self)
    }

    #[inline(always)]
    fn is_open(&self) -> bool {
        Note::is_open(self)
    }

    #[inline(always)]
    fn is_close(&self) -> bool {
        Note::is_close(self)
    }

    #[inline(always)]
    fn is_rest(&self) -> bool {
        Note::is_rest(self)
    }

    #[inline(always)]
    fn delivery(&self) -> Option<u16> {
        Note::delivery(self)
    }

    #[inline(always)]
    fn closer(&self) -> Option<u16> {
        Note::closer(self)
    }

    #[inline(always)]
    fn is_received_pingreq(&self) -> bool {
        Note::is_received_pingreq(self)
    }

    #[inline(always)]
    fn is_sent_pingresp(&self) -> bool {
        Note::is_sent_pingresp(self)
    }
}

impl Noted for Bare<'_> {
    ghost note = { note_of_bare };

    #[inline(always)]
    fn as_ref(&self) -> NoteRef<'_> {
        NoteRef::Bare(*self)
    }

    #[inline(always)]
    #[tactic(auto, unfolding(crate::specs::Notes::note_of_bare))]
    fn received_at_least_once(&self) -> Option<u16> {
        match self.direction {
            Direction::Sent => None,
            Direction::Recv => match self.fields {
                BareFields::Publish {
                    identifier,
                    qos,
                    ..
                } => at_least_once(qos, identifier),
                _ => None,
            },
        }
    }

    #[inline(always)]
    #[tactic(auto, unfolding(crate::specs::Notes::note_of_bare))]
    fn sent_puback(&self) -> Option<u16> {
        match self.direction {
            Direction::Sent => match self.fields {
                BareFields::Puback { identifier, .. } => Some(identifier),
                _ => None,
            },
            Direction::Recv => None,
        }
    }

    #[inline(always)]
    #[tactic(auto, unfolding(crate::specs::Notes::note_of_bare))]
    fn received_exactly_once(&self) -> Option<u16> {
        match self.direction {
            Direction::Sent => None,
            Direction::Recv => match self.fields {
                BareFields::Publish {
                    identifier,
                    qos,
                    ..
                } => exactly_once(qos, identifier),
                _ => None,
            },
        }
    }

    #[inline(always)]
    #[tactic(auto, unfolding(crate::specs::Notes::note_of_bare))]
    fn sent_pubrec(&self) -> Option<u16> {
        match self.direction {
            Direction::Sent => match self.fields {
                BareFields::Pubrec { identifier, .. } => Some(identifier),
                _ => None,
            },
            Direction::Recv => None,
        }
    }

    #[inline(always)]
    #[tactic(auto, unfolding(crate::specs::Notes::note_of_bare))]
    fn received_accepting_pubrec(&self) -> Option<u16> {
        match self.direction {
            Direction::Sent => None,
            Direction::Recv => match self.fields {
                BareFields::Pubrec { identifier, code } => accepted(identifier, code),
                _ => None,
            },
        }
    }

    #[inline(always)]
    #[tactic(auto, unfolding(crate::specs::Notes::note_of_bare))]
    fn sent_pubrel(&self) -> Option<u16> {
        match self.direction {
            Direction::Sent => match self.fields {
                BareFields::Pubrel { identifier, .. } => Some(identifier),
                _ => None,
            },
            Direction::Recv => None,
        }
    }

    #[inline(always)]
    #[tactic(auto, unfolding(crate::specs::Notes::note_of_bare))]
    fn received_pubrel(&self) -> Option<u16> {
        match self.direction {
            Direction::Sent => None,
            Direction::Recv => match self.fields {
                BareFields::Pubrel { identifier, .. } => Some(identifier),
                _ => None,
            },
        }
    }

    #[inline(always)]
    #[tactic(auto, unfolding(crate::specs::Notes::note_of_bare))]
    fn sent_pubcomp(&self) -> Option<u16> {
        match self.direction {
            Direction::Sent => match self.fields {
                BareFields::Pubcomp { identifier, .. } => Some(identifier),
                _ => None,
            },
            Direction::Recv => None,
        }
    }

    #[inline(always)]
    #[tactic(auto, unfolding(crate::specs::Notes::note_of_bare))]
    fn received_subscribe(&self) -> Option<u16> {
        None
    }

    #[inline(always)]
    #[tactic(auto, unfolding(crate::specs::Notes::note_of_bare))]
    fn sent_suback(&self) -> Option<u16> {
        None
    }

    #[inline(always)]
    #[tactic(auto, unfolding(crate::specs::Notes::note_of_bare))]
    fn received_unsubscribe(&self) -> Option<u16> {
        None
    }

    #[inline(always)]
    #[tactic(auto, unfolding(crate::specs::Notes::note_of_bare))]
    fn sent_unsuback(&self) -> Option<u16> {
        None
    }

    #[inline(always)]
    #[tactic(auto, unfolding(crate::specs::Notes::note_of_bare))]
    fn is_open(&self) -> bool {
        false
    }

    #[inline(always)]
    #[tactic(auto, unfolding(crate::specs::Notes::note_of_bare))]
    fn is_close(&self) -> bool {
        false
    }

    #[inline(always)]
    #[tactic(auto, unfolding(crate::specs::Notes::note_of_bare))]
    fn is_rest(&self) -> bool {
        false
    }

    #[inline(always)]
    #[tactic(auto, unfolding(crate::specs::Notes::note_of_bare))]
    fn delivery(&self) -> Option<u16> {
        match self.direction {
            Direction::Sent => match self.fields {
                BareFields::Publish {
                    identifier,
                    qos,
                    ..
                } => delivered(qos, identifier),
                _ => None,
            },
            Direction::Recv => None,
        }
    }

    #[inline(always)]
    #[tactic(auto, unfolding(crate::specs::Notes::note_of_bare))]
    fn closer(&self) -> Option<u16> {
        match self.direction {
            Direction::Sent => None,
            Direction::Recv => match self.fields {
                BareFields::Puback { identifier, .. } | BareFields::Pubcomp { identifier, .. } =>
                    Some(identifier),
                BareFields::Pubrec { identifier, code } => refused(identifier, code),
                _ => None,
            },
        }
    }

    #[inline(always)]
    #[tactic(auto, unfolding(crate::specs::Notes::note_of_bare))]
    fn is_received_pingreq(&self) -> bool {
        match self.direction {
            Direction::Sent => false,
            Direction::Recv => matches!(self.fields, BareFields::Pingreq),
        }
    }

    #[inline(always)]
    #[tactic(auto, unfolding(crate::specs::Notes::note_of_bare))]
    fn is_sent_pingresp(&self) -> bool {
        match self.direction {
            Direction::Sent => matches!(self.fields, BareFields::Pingresp),
            Direction::Recv => false,
        }
    }
}
