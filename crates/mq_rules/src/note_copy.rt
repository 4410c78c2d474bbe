//! Copies of notes, for whoever keeps an event.
ghost use Rattle.std.specs.Prelude.{◌≡◌, ◌<◌, ◌⊎◌, length, IfOk, OnErr};
ghost use Rattle.mq_rules.specs.Copies.{fields_own, item_owns, note_owns};

use crate::faults::Memory;
use crate::note::{ItemNote, Note};
use crate::packet_note::{PacketFields, PacketNote, PublishNote};
use std::alloc::Global;

// A copy of what is noted of a PUBLISH.
fn copy_publish(alloc: Global, publish: &PublishNote) -> Result<PublishNote, Memory>
    ensures exact { IfOk result (λ copy. copy ≡ publish.now) }
    ensures needed { OnErr result ((30 < length publish.now.topic) ⊎ (1 < length publish.now.subscription_identifiers)) }
{
    let topic = publish.topic.copy(alloc)?;
    let subscription_identifiers = publish.subscription_identifiers.copy(alloc)?;
    Ok(PublishNote {
        identifier: publish.identifier,
        qos: publish.qos,
        duplicate: publish.duplicate,
        retain: publish.retain,
        topic,
        topic_alias: publish.topic_alias,
        uses_alias: publish.uses_alias,
        has_message_expiry: publish.has_message_expiry,
        has_subscription_identifier: publish.has_subscription_identifier,
        subscription_identifiers,
    })
}

// A copy of what is noted of a packet's fields.
fn copy_fields(alloc: Global, fields: &PacketFields) -> Result<PacketFields, Memory>
    ensures exact { IfOk result (λ copy. copy ≡ fields.now) }
    ensures needed { OnErr result (fields_own fields.now) }
{
    Ok(match fields {
        PacketFields::Connect { note, method } => PacketFields::Connect {
            note: *note,
            method: method.copy(alloc)?,
        },
        PacketFields::Connack { note, method } => PacketFields::Connack {
            note: *note,
            method: method.copy(alloc)?,
        },
        PacketFields::Publish(publish) => PacketFields::Publish(copy_publish(alloc, publish)?),
        &PacketFields::Puback { identifier, code } => PacketFields::Puback { identifier, code },
        &PacketFields::Pubrec { identifier, code } => PacketFields::Pubrec { identifier, code },
        &PacketFields::Pubrel { identifier, code } => PacketFields::Pubrel { identifier, code },
        &PacketFields::Pubcomp { identifier, code } => PacketFields::Pubcomp { identifier, code },
        PacketFields::Subscribe {
            identifier,
            filters,
            wishes,
        } => PacketFields::Subscribe {
            identifier: *identifier,
            filters: filters.copy(alloc)?,
            wishes: *wishes,
        },
        PacketFields::Suback { identifier, codes } => PacketFields::Suback {
            identifier: *identifier,
            codes: codes.copy(alloc)?,
        },
        PacketFields::Unsubscribe {
            identifier,
            filters,
        } => PacketFields::Unsubscribe {
            identifier: *identifier,
            filters: filters.copy(alloc)?,
        },
        PacketFields::Unsuback { identifier, codes } => PacketFields::Unsuback {
            identifier: *identifier,
            codes: codes.copy(alloc)?,
        },
        PacketFields::Pingreq => PacketFields::Pingreq,
        PacketFields::Pingresp => PacketFields::Pingresp,
        PacketFields::Disconnect(note) => PacketFields::Disconnect(*note),
        PacketFields::Auth { method } => PacketFields::Auth {
            method: method.copy(alloc)?,
        },
    })
}

// A copy of what is noted of an item.
fn copy_item(alloc: Global, item: &ItemNote) -> Result<ItemNote, Memory>
    ensures exact { IfOk result (λ copy. copy ≡ item.now) }
    ensures needed { OnErr result (item_owns item.now) }
{
    match item {
        ItemNote::Packet(packet) => {
            let fields = copy_fields(alloc, &packet.fields)?;
            Ok(ItemNote::Packet(PacketNote {
                size: packet.size,
                has_reason_string: packet.has_reason_string,
                has_user_property: packet.has_user_property,
                fields,
            }))
        }
        ItemNote::Bad {
            first,
            rule,
            at,
            is_large,
        } => Ok(ItemNote::Bad {
            first: *first,
            rule: *rule,
            at: *at,
            is_large: *is_large,
        }),
        ItemNote::Lost => Ok(ItemNote::Lost),
    }
}

impl Note {
    /// A copy of the note, which owns its texts and lists.
    ///
    /// # Errors
    ///
    /// `Memory` if there is no memory for them. A note needs none that has no filters and no
    /// Authentication Method, at most one Reason Code and one Subscription Identifier, and no Topic
    /// Name of more than 30 bytes.
    pub fn copy(&self, alloc: Global) -> Result<Note, Memory>
        ensures exact { IfOk result (λ copy. copy ≡ self.now) }
        ensures needed { OnErr result (note_owns self.now) }
    {
        match self {
            Note::Open => Ok(Note::Open),
            Note::Close {
                cuts_publish,
                cuts_packet,
            } => Ok(Note::Close {
                cuts_publish: *cuts_publish,
                cuts_packet: *cuts_packet,
            }),
            Note::Rest => Ok(Note::Rest),
            Note::Release(identifier) => Ok(Note::Release(*identifier)),
            Note::Sent(item) => Ok(Note::Sent(copy_item(alloc, item)?)),
            Note::Recv(item) => Ok(Note::Recv(copy_item(alloc, item)?)),
        }
    }
}
