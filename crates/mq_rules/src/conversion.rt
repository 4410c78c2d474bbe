//! What the statements look at in the packets and events of a log, copied out of the bytes that
//! they were read from.
//!
//! Memory is taken only for a text that some statement looks at: the Topic Name of a PUBLISH that
//! was sent, and its Subscription Identifiers if they are several, the Topic Filters of a SUBSCRIBE
//! or an UNSUBSCRIBE that was received, the Reason Codes of a SUBACK or an UNSUBACK that was sent,
//! if they are several, and the Authentication Method of a CONNECT, or of an AUTH or a CONNACK that
//! was sent.
ghost use Rattle.std.specs.Prelude.{◌≡◌, ◌&&◌, ◌<◌, ◌≤◌, [], true, false, None, is_some, length, slice_index, option_map, unwrap_or, IfOk, OnErr};
ghost use Rattle.mq_props.specs.First.{first_two_bytes, first_four_bytes, first_varint, first_text, first_pair};
ghost use Rattle.mq_packet.specs.declared.packet.RequestKind.TheVariants as requests;
ghost use Rattle.mq_packet.specs.Reading.{view, connect_view, publish_view, will_view};
ghost use Rattle.mq_packet.specs.Sizes.{size_with, remaining_length};
ghost use Rattle.mq_packet.specs.Entries.{publish as publish_entry};
ghost use Rattle.mq_log.specs.Events.{packet, packet as packet_item};
ghost use Rattle.mq_log.specs.Flows.{item_event};
ghost use Rattle.mq_log.specs.Reception.{item_of, event_of};
ghost use Rattle.mq_rules.specs.declared.packet_note.PacketFields.TheVariants as fields;
ghost use Rattle.mq_rules.specs.Notes.{only_list, is_sent_direction, begins_acknowledged, cuts_acknowledged, will_note, connect_note, connack_note, publish_note, subscription_identifiers_in, disconnect_note, wishes_note, packet_fields, explaining_list, uses_alias, expires_if_received, packet_note, item_note, note_of, request_fields, answer_fields, noted_method, keeps_text, item_keeps_text, note_keeps_text};

use crate::faults::Memory;
use crate::identifier_list::IdentifierList;
use crate::keep_alive::is_large;
use crate::lists::{CodeList, FilterList};
use crate::method::Method;
use crate::note::{ItemNote, Note};
use crate::packet_note::{
    ConnackNote, ConnectNote, DisconnectNote, PacketFields, PacketNote, PublishNote, WillNote,
    WishesNote,
};
use crate::text::Text;
use mq_log::{Direction, Event, Item};
use mq_packet::{Codes, Connack, Connect, Packet, Publish, ReasonPacket, Request, Will};
use mq_props::Props;
use std::alloc::Global;

// Whether there is a text.
#[inline]
fn is_text(text: Option<&str>) -> bool
    ensures { result ≡ is_some (option_map (λ text. text.now) text.entry) }
{
    text.is_some()
}

/// The list, if it has properties. In most packets it is empty, and then nothing needs to be looked
/// for in it.
#[inline(always)]
pub(crate) fn nonempty<'p, 'a>(list: &'p Props<'a>) -> Option<&'p Props<'a>>
    ensures { unwrap_or (option_map (λ list. list.now.items) result) [] ≡ list.now.items }
{
    if list.as_bytes().is_empty() {
        None
    } else {
        Some(list)
    }
}

// Whether there is a list, and it has a Reason String (MQTT 5.0, section 3.2.2.3.9).
#[inline(always)]
fn has_reason_string(list: Option<&Props<'_>>) -> bool
    ensures { result ≡ is_some (first_text 31 (unwrap_or (option_map (λ list. list.now.items) list.entry) [])) }
{
    match list {
        Some(list) => list.has_reason_string(),
        None => false,
    }
}

// Whether there is a list, and it has a User Property (MQTT 5.0, section 3.2.2.3.10).
#[inline(always)]
fn has_user_property(list: Option<&Props<'_>>) -> bool
    ensures { result ≡ is_some (first_pair 38 (unwrap_or (option_map (λ list. list.now.items) list.entry) [])) }
{
    match list {
        Some(list) => list.has_user_property(),
        None => false,
    }
}

// The Topic Alias, if there is a list, and it has one (MQTT 5.0, section 3.3.2.3.4).
#[inline(always)]
fn topic_alias(list: Option<&Props<'_>>) -> Option<u16>
    ensures { result ≡ first_two_bytes 35 (unwrap_or (option_map (λ list. list.now.items) list.entry) []) }
{
    match list {
        Some(list) => list.get_topic_alias(),
        None => None,
    }
}

// Whether there is a list whose Topic Alias stands for a Topic Name: this one is empty.
#[inline(always)]
fn uses_alias(topic: &str, list: Option<&Props<'_>>) -> bool
    ensures { result ≡ uses_alias topic.now (unwrap_or (option_map (λ list. list.now.items) list.entry) []) }
{
    topic_alias(list).is_some() && topic.is_empty()
}

// Whether there is a list, and it has a Message Expiry Interval (MQTT 5.0, section 3.3.2.3.3).
#[inline(always)]
fn has_message_expiry(list: Option<&Props<'_>>) -> bool
    ensures { result ≡ is_some (first_four_bytes 2 (unwrap_or (option_map (λ list. list.now.items) list.entry) [])) }
{
    match list {
        Some(list) => list.has_message_expiry_interval(),
        None => false,
    }
}

// The same, if the list is that of a PUBLISH that was received. Of one that was sent no statement
// looks at it.
#[inline(always)]
fn expires_if_received(direction: Direction, list: Option<&Props<'_>>) -> bool
    ensures { result ≡ expires_if_received direction (unwrap_or (option_map (λ list. list.now.items) list.entry) []) }
{
    match direction {
        Direction::Sent => false,
        Direction::Recv => has_message_expiry(list),
    }
}

// Whether the list has a Subscription Identifier (MQTT 5.0, section 3.3.2.3.8).
#[inline(always)]
#[tactic(auto, using(crate::proofs::PropertyLaws::none_without))]
fn has_identifier(list: &Props<'_>) -> bool
    ensures exact { result ≡ is_some (first_varint 11 list.now.items) }
    ensures none { result ≡ false → subscription_identifiers_in list.now.items ≡ [] }
{
    // Its bytes aren't looked at: a list that has some is an allowed one, so that what has the
    // identifier of this property is a number.
    let _bytes = list.as_bytes();
    list.has_subscription_identifier()
}

// Whether there is a list, and it has a Subscription Identifier.
#[inline(always)]
fn has_subscription_identifier(list: Option<&Props<'_>>) -> bool
    ensures exact { result ≡ is_some (first_varint 11 (unwrap_or (option_map (λ list. list.now.items) list.entry) [])) }
    ensures none { result ≡ false → subscription_identifiers_in (unwrap_or (option_map (λ list. list.now.items) list.entry) []) ≡ [] }
{
    match list {
        Some(list) => has_identifier(list),
        None => false,
    }
}

/// Whether the list of a PUBLISH that went this way has a property that is noted.
#[inline(always)]
pub(crate) fn has_noted(direction: Direction, list: Option<&Props<'_>>) -> bool
    ensures unaliased { result ≡ false → first_two_bytes 35 (unwrap_or (option_map (λ list. list.now.items) list.entry) []) ≡ None }
    ensures unidentified { result ≡ false → is_some (first_varint 11 (unwrap_or (option_map (λ list. list.now.items) list.entry) [])) ≡ false }
    ensures unnamed { result ≡ false → subscription_identifiers_in (unwrap_or (option_map (λ list. list.now.items) list.entry) []) ≡ [] }
    ensures lasting { result ≡ false → expires_if_received direction (unwrap_or (option_map (λ list. list.now.items) list.entry) []) ≡ false }
{
    topic_alias(list).is_some()
        || has_subscription_identifier(list)
        || expires_if_received(direction, list)
}

impl WillNote {
    // What the statements look at in this Will, if there is one.
    fn of(will: Option<&Will<'_>>) -> Option<WillNote>
        ensures { result ≡ option_map will_note (option_map will_view (option_map (λ will. will.now) will.entry)) }
    {
        match will {
            Some(will) => Some(WillNote {
                qos: will.qos,
                retain: will.retain,
            }),
            None => None,
        }
    }
}

impl ConnectNote {
    /// What the statements look at in this CONNECT.
    pub fn of(connect: &Connect<'_>) -> ConnectNote
        ensures { result ≡ connect_note (connect_view connect.now) }
    {
        let properties = &connect.properties;
        ConnectNote {
            clean_start: connect.clean_start,
            is_unnamed: connect.client_identifier.is_empty(),
            session_expiry: properties.get_session_expiry_interval(),
            request_problem_information: properties.get_request_problem_information(),
            request_response_information: properties.get_request_response_information(),
            receive_maximum: properties.get_receive_maximum(),
            topic_alias_maximum: properties.get_topic_alias_maximum(),
            maximum_packet_size: properties.get_maximum_packet_size(),
            keep_alive: connect.keep_alive,
            will: WillNote::of(connect.will.as_ref()),
            has_authentication_method: is_text(properties.get_authentication_method()),
        }
    }
}

impl ConnackNote {
    /// What the statements look at in this CONNACK.
    pub fn of(connack: &Connack<'_>) -> ConnackNote
        ensures { result ≡ connack_note connack.now.session_present connack.now.code connack.now.properties.items }
    {
        let properties = &connack.properties;
        ConnackNote {
            session_present: connack.session_present,
            code: connack.code,
            session_expiry: properties.get_session_expiry_interval(),
            receive_maximum: properties.get_receive_maximum(),
            topic_alias_maximum: properties.get_topic_alias_maximum(),
            maximum_qos: properties.get_maximum_qos(),
            retain_available: properties.get_retain_available(),
            wildcard_subscription_available: properties.get_wildcard_subscription_available(),
            subscription_identifier_available: properties.get_subscription_identifier_available(),
            shared_subscription_available: properties.get_shared_subscription_available(),
            maximum_packet_size: properties.get_maximum_packet_size(),
            server_keep_alive: properties.get_server_keep_alive(),
            has_assigned_identifier: is_text(properties.get_assigned_client_identifier()),
            has_response_information: is_text(properties.get_response_information()),
            has_authentication_method: is_text(properties.get_authentication_method()),
        }
    }
}

impl DisconnectNote {
    /// What the statements look at in this DISCONNECT.
    pub fn of(disconnect: &ReasonPacket<'_>) -> DisconnectNote
        ensures { result ≡ disconnect_note disconnect.now.code disconnect.now.properties.items }
    {
        DisconnectNote {
            code: disconnect.code,
            session_expiry: disconnect.properties.get_session_expiry_interval(),
        }
    }
}

// The Subscription Identifiers in the list. In most there are none, and then it isn't gone through.
fn identifiers_in(alloc: Global, list: &Props<'_>) -> Result<IdentifierList, Memory>
    ensures exact { IfOk result (λ identifiers. identifiers ≡ subscription_identifiers_in list.now.items) }
    ensures needed { OnErr result (1 < length (subscription_identifiers_in list.now.items)) }
{
    if has_identifier(list) {
        IdentifierList::of(alloc, list)
    } else {
        Ok(IdentifierList::none())
    }
}

// The Subscription Identifiers in the list, if there is one.
#[inline(always)]
fn identifiers_of(alloc: Global, list: Option<&Props<'_>>) -> Result<IdentifierList, Memory>
    ensures exact { IfOk result (λ identifiers. identifiers ≡ subscription_identifiers_in (unwrap_or (option_map (λ list. list.now.items) list.entry) [])) }
    ensures needed { OnErr result (1 < length (subscription_identifiers_in (unwrap_or (option_map (λ list. list.now.items) list.entry) []))) }
{
    match list {
        Some(list) => identifiers_in(alloc, list),
        None => Ok(IdentifierList::none()),
    }
}

// The Subscription Identifiers in the list, if there is one, and its PUBLISH was sent; else none.
#[inline(always)]
fn kept_identifiers(
    alloc: Global,
    direction: Direction,
    list: Option<&Props<'_>>,
) -> Result<IdentifierList, Memory>
    ensures exact { IfOk result (λ identifiers. identifiers ≡ only_list (is_sent_direction direction) (subscription_identifiers_in (unwrap_or (option_map (λ list. list.now.items) list.entry) []))) }
    ensures needed { OnErr result (1 < length (only_list (is_sent_direction direction) (subscription_identifiers_in (unwrap_or (option_map (λ list. list.now.items) list.entry) [])))) }
{
    match direction {
        Direction::Sent => identifiers_of(alloc, list),
        Direction::Recv => Ok(IdentifierList::none()),
    }
}

// The Topic Name, if its PUBLISH was sent; else it is empty.
#[inline(always)]
fn kept_topic(alloc: Global, direction: Direction, topic: &str) -> Result<Text, Memory>
    ensures exact { IfOk result (λ text. text ≡ only_list (is_sent_direction direction) topic.now) }
    ensures needed { OnErr result (0 < length (only_list (is_sent_direction direction) topic.now)) }
{
    match direction {
        Direction::Sent => Text::of(alloc, topic),
        Direction::Recv => Ok(Text::empty()),
    }
}

impl PublishNote {
    /// What the statements look at in this PUBLISH, which went this way.
    ///
    /// # Errors
    ///
    /// `Memory` if there is no memory for its Topic Name, or for its Subscription Identifiers if they
    /// are several. They are kept of a PUBLISH that was sent.
    #[inline(always)]
    pub fn of(
        alloc: Global,
        direction: Direction,
        publish: &Publish<'_>,
    ) -> Result<PublishNote, Memory>
        ensures exact { IfOk result (λ note. note ≡ publish_note direction (publish_view publish.now)) }
        ensures needed { OnErr result (keeps_text (fields.Publish (publish_note direction (publish_view publish.now))) ≡ true) }
    {
        let topic = kept_topic(alloc, direction, publish.topic)?;
        let properties = nonempty(&publish.properties);
        let identifiers = kept_identifiers(alloc, direction, properties)?;
        Ok(PublishNote::with_copies(direction, topic, identifiers, publish))
    }

    // What the statements look at in this PUBLISH, with these copies of its Topic Name and of its
    // Subscription Identifiers.
    #[inline(always)]
    fn with_copies(
        direction: Direction,
        topic: Text,
        subscription_identifiers: IdentifierList,
        publish: &Publish<'_>,
    ) -> PublishNote
        ensures { topic ≡ only_list (is_sent_direction direction) publish.now.topic.now → subscription_identifiers ≡ only_list (is_sent_direction direction) (subscription_identifiers_in publish.now.properties.items) → result ≡ publish_note direction (publish_view publish.now) }
    {
        let properties = nonempty(&publish.properties);
        PublishNote {
            identifier: publish.identifier,
            qos: publish.qos,
            duplicate: publish.duplicate,
            retain: publish.retain,
            topic,
            topic_alias: topic_alias(properties),
            uses_alias: uses_alias(publish.topic, properties),
            has_message_expiry: expires_if_received(direction, properties),
            has_subscription_identifier: has_subscription_identifier(properties),
            subscription_identifiers,
        }
    }
}

// The Authentication Method, if its packet was sent and has one.
fn noted_method(
    alloc: Global,
    direction: Direction,
    properties: &Props<'_>,
) -> Result<Method, Memory>
    ensures exact { IfOk result (λ method. method ≡ noted_method direction properties.now.items) }
    ensures needed { OnErr result (is_some (noted_method direction properties.now.items) ≡ true) }
{
    match direction {
        Direction::Sent => Method::of(alloc, properties.get_authentication_method()),
        Direction::Recv => Ok(Method::none()),
    }
}

// What the statements look at in this CONNECT, whichever way it went.
fn connect_fields(alloc: Global, connect: &Connect<'_>) -> Result<PacketFields, Memory>
    ensures exact { IfOk result (λ made. made ≡ fields.Connect (connect_note (connect_view connect.now)) (first_text 21 connect.now.properties.items)) }
    ensures needed { OnErr result (is_some (first_text 21 connect.now.properties.items) ≡ true) }
{
    let method = Method::of(alloc, connect.properties.get_authentication_method())?;
    Ok(PacketFields::Connect {
        note: ConnectNote::of(connect),
        method,
    })
}

// What the statements look at in this CONNACK, which went this way.
fn connack_fields(
    alloc: Global,
    direction: Direction,
    connack: &Connack<'_>,
) -> Result<PacketFields, Memory>
    ensures exact { IfOk result (λ made. made ≡ fields.Connack (connack_note connack.now.session_present connack.now.code connack.now.properties.items) (noted_method direction connack.now.properties.items)) }
    ensures needed { OnErr result (is_some (noted_method direction connack.now.properties.items) ≡ true) }
{
    let method = noted_method(alloc, direction, &connack.properties)?;
    Ok(PacketFields::Connack {
        note: ConnackNote::of(connack),
        method,
    })
}

// What the statements look at in this AUTH, which went this way.
fn auth_fields(
    alloc: Global,
    direction: Direction,
    auth: &ReasonPacket<'_>,
) -> Result<PacketFields, Memory>
    ensures exact { IfOk result (λ made. made ≡ fields.Auth (noted_method direction auth.now.properties.items)) }
    ensures needed { OnErr result (is_some (noted_method direction auth.now.properties.items) ≡ true) }
{
    let method = noted_method(alloc, direction, &auth.properties)?;
    Ok(PacketFields::Auth { method })
}

// What a SUBSCRIBE asks for.
fn wishes_in(request: &Request<'_>) -> WishesNote
    ensures { result ≡ wishes_note request.now.properties.items request.now.filters }
{
    let identifier = request.properties.get_subscription_identifier();
    WishesNote::of(identifier, &request.filters)
}

// What the statements look at in this SUBSCRIBE, which went this way.
fn subscribe_fields(
    alloc: Global,
    direction: Direction,
    request: &Request<'_>,
) -> Result<PacketFields, Memory>
    ensures exact { IfOk result (λ fields. fields ≡ request_fields direction requests.Subscribe request.now.identifier request.now.properties.items request.now.filters) }
    ensures needed { OnErr result (keeps_text (request_fields direction requests.Subscribe request.now.identifier request.now.properties.items request.now.filters) ≡ true) }
{
    let filters = match direction {
        Direction::Sent => FilterList::empty(alloc),
        Direction::Recv => FilterList::of(alloc, &request.filters)?,
    };
    Ok(PacketFields::Subscribe {
        identifier: request.identifier,
        filters,
        wishes: wishes_in(request),
    })
}

// What the statements look at in a SUBACK with these Reason Codes, which went this way.
fn suback_fields(
    alloc: Global,
    direction: Direction,
    identifier: u16,
    codes: &Codes<'_>,
) -> Result<PacketFields, Memory>
    ensures exact { IfOk result (λ fields. fields ≡ answer_fields direction requests.Subscribe identifier codes.now) }
    ensures needed { OnErr result (keeps_text (answer_fields direction requests.Subscribe identifier codes.now) ≡ true) }
{
    let codes = match direction {
        Direction::Sent => CodeList::of(alloc, codes)?,
        Direction::Recv => CodeList::empty(alloc),
    };
    Ok(PacketFields::Suback { identifier, codes })
}

// What the statements look at in this UNSUBSCRIBE, which went this way.
fn unsubscribe_fields(
    alloc: Global,
    direction: Direction,
    request: &Request<'_>,
) -> Result<PacketFields, Memory>
    ensures exact { IfOk result (λ fields. fields ≡ request_fields direction requests.Unsubscribe request.now.identifier request.now.properties.items request.now.filters) }
    ensures needed { OnErr result (keeps_text (request_fields direction requests.Unsubscribe request.now.identifier request.now.properties.items request.now.filters) ≡ true) }
{
    let filters = match direction {
        Direction::Sent => FilterList::empty(alloc),
        Direction::Recv => FilterList::of(alloc, &request.filters)?,
    };
    Ok(PacketFields::Unsubscribe {
        identifier: request.identifier,
        filters,
    })
}

// What the statements look at in an UNSUBACK with these Reason Codes, which went this way.
fn unsuback_fields(
    alloc: Global,
    direction: Direction,
    identifier: u16,
    codes: &Codes<'_>,
) -> Result<PacketFields, Memory>
    ensures exact { IfOk result (λ fields. fields ≡ answer_fields direction requests.Unsubscribe identifier codes.now) }
    ensures needed { OnErr result (keeps_text (answer_fields direction requests.Unsubscribe identifier codes.now) ≡ true) }
{
    let codes = match direction {
        Direction::Sent => CodeList::of(alloc, codes)?,
        Direction::Recv => CodeList::empty(alloc),
    };
    Ok(PacketFields::Unsuback { identifier, codes })
}

impl PacketFields {
    /// What the statements look at in the fields of this packet, which went this way.
    ///
    /// # Errors
    ///
    /// `Memory` if there is no memory for a text that is kept.
    #[inline(always)]
    pub fn of(
        alloc: Global,
        direction: Direction,
        packet: &Packet<'_>,
    ) -> Result<PacketFields, Memory>
        ensures exact { IfOk result (λ fields. fields ≡ packet_fields direction (view packet.now)) }
        ensures needed { OnErr result (keeps_text (packet_fields direction (view packet.now)) ≡ true) }
    {
        match packet {
            Packet::Publish(publish) => {
                let note = PublishNote::of(alloc, direction, publish)?;
                Ok(PacketFields::Publish(note))
            }
            Packet::Puback(puback) => Ok(PacketFields::Puback {
                identifier: puback.identifier,
                code: puback.code,
            }),
            Packet::Pubrec(pubrec) => Ok(PacketFields::Pubrec {
                identifier: pubrec.identifier,
                code: pubrec.code,
            }),
            Packet::Pubrel(pubrel) => Ok(PacketFields::Pubrel {
                identifier: pubrel.identifier,
                code: pubrel.code,
            }),
            Packet::Pubcomp(pubcomp) => Ok(PacketFields::Pubcomp {
                identifier: pubcomp.identifier,
                code: pubcomp.code,
            }),
            Packet::Pingreq => Ok(PacketFields::Pingreq),
            Packet::Pingresp => Ok(PacketFields::Pingresp),
            Packet::Connect(connect) => connect_fields(alloc, connect),
            Packet::Connack(connack) => connack_fields(alloc, direction, connack),
            Packet::Subscribe(request) => subscribe_fields(alloc, direction, request),
            Packet::Suback(answer) => suback_fields(
                alloc,
                direction,
                answer.identifier,
                &answer.codes,
            ),
            Packet::Unsubscribe(request) => unsubscribe_fields(alloc, direction, request),
            Packet::Unsuback(answer) => unsuback_fields(
                alloc,
                direction,
                answer.identifier,
                &answer.codes,
            ),
            Packet::Disconnect(disconnect) => {
                Ok(PacketFields::Disconnect(DisconnectNote::of(disconnect)))
            }
            Packet::Auth(auth) => auth_fields(alloc, direction, auth),
        }
    }
}

// The property list in which a Reason String and a User Property are looked for, if the packet has
// such a list, with properties in it. That of a PUBLISH is none (MQTT 5.0, section 3.1.2.11.7).
#[inline(always)]
fn explaining_list<'p, 'a>(packet: &'p Packet<'a>) -> Option<&'p Props<'a>>
    ensures { unwrap_or (option_map (λ list. list.now.items) result) [] ≡ explaining_list (view packet.now) }
{
    match packet {
        Packet::Connect(packet) => nonempty(&packet.properties),
        Packet::Connack(packet) => nonempty(&packet.properties),
        Packet::Puback(packet)
        | Packet::Pubrec(packet)
        | Packet::Pubrel(packet)
        | Packet::Pubcomp(packet) => nonempty(&packet.properties),
        Packet::Subscribe(packet) | Packet::Unsubscribe(packet) => nonempty(&packet.properties),
        Packet::Suback(packet) | Packet::Unsuback(packet) => nonempty(&packet.properties),
        Packet::Publish(_) | Packet::Pingreq | Packet::Pingresp => None,
        Packet::Disconnect(packet) | Packet::Auth(packet) => nonempty(&packet.properties),
    }
}

impl PacketNote {
    /// What the statements look at in this packet of `size` bytes, which went this way.
    ///
    /// # Errors
    ///
    /// `Memory` if there is no memory for a text that is kept.
    #[inline(always)]
    pub fn of(
        alloc: Global,
        direction: Direction,
        size: u32,
        packet: &Packet<'_>,
    ) -> Result<PacketNote, Memory>
        ensures exact { IfOk result (λ note. note ≡ packet_note direction size (view packet.now)) }
        ensures needed { OnErr result (keeps_text (packet_fields direction (view packet.now)) ≡ true) }
    {
        let fields = PacketFields::of(alloc, direction, packet)?;
        let properties = explaining_list(packet);
        Ok(PacketNote {
            size,
            has_reason_string: has_reason_string(properties),
            has_user_property: has_user_property(properties),
            fields,
        })
    }
}

// Whether a packet with this first byte is a PUBLISH of QoS 1 or 2 (MQTT 5.0, sections 2.1.2 and
// 3.3.1.2).
fn is_acknowledged_publish(first: u8) -> bool
    ensures { result ≡ begins_acknowledged first }
{
    first / 16 == 3 && (first / 2 % 4 == 1 || first / 2 % 4 == 2)
}

// Whether these are the bytes so far of such a packet.
fn is_publish_cut(sent: &[u8]) -> bool
    ensures { result ≡ cuts_acknowledged sent.now }
{
    match *sent {
        [] => false,
        [first, ..] => is_acknowledged_publish(first),
    }
}

// The first byte of a packet's bytes. Without any it is 0, but each packet has two at least.
fn first_of(bytes: &[u8]) -> u8
    ensures { result ≡ slice_index bytes.now 0 }
{
    match bytes {
        [first, ..] => *first,
        [] => 0,
    }
}

impl ItemNote {
    /// What the statements look at in this item, which went this way. A packet that was read has a
    /// size.
    ///
    /// # Errors
    ///
    /// `Memory` if there is no memory for a text that is kept.
    #[inline(always)]
    pub fn of(alloc: Global, direction: Direction, item: &Item<'_>) -> Result<ItemNote, Memory>
        ensures exact { IfOk result (λ note. note ≡ item_note direction (item_of item.now)) }
        ensures needed { OnErr result (item_keeps_text (item_note direction (item_of item.now)) ≡ true) }
    {
        match item {
            Item::Packet(packet) => {
                let size = packet.size().unwrap_or(0);
                let note = PacketNote::of(alloc, direction, size, packet)?;
                Ok(ItemNote::Packet(note))
            }
            Item::Bad { bytes, rule, at } => Ok(ItemNote::Bad {
                first: first_of(bytes),
                rule: *rule,
                at: *at,
                is_large: is_large(bytes.len() as u64),
            }),
            Item::Lost => Ok(ItemNote::Lost),
        }
    }
}

impl Note {
    /// What the statements look at in this packet of `size` bytes, which went this way.
    ///
    /// # Errors
    ///
    /// `Memory` if there is no memory for a text that is kept.
    #[inline(always)]
    pub fn of_packet(
        alloc: Global,
        direction: Direction,
        size: u32,
        packet: &Packet<'_>,
    ) -> Result<Note, Memory>
        ensures exact { IfOk result (λ note. note ≡ note_of (item_event direction (packet_item size (view packet.now)))) }
        ensures needed { OnErr result (note_keeps_text (note_of (item_event direction (packet_item size (view packet.now)))) ≡ true) }
    {
        let note = ItemNote::Packet(PacketNote::of(alloc, direction, size, packet)?);
        match direction {
            Direction::Sent => Ok(Note::Sent(note)),
            Direction::Recv => Ok(Note::Recv(note)),
        }
    }

    /// What the statements look at in this event.
    ///
    /// # Errors
    ///
    /// `Memory` if there is no memory for what is kept: the Topic Name of a PUBLISH that was sent, or
    /// its Subscription Identifiers if they are several, the Topic Filters of a SUBSCRIBE or an
    /// UNSUBSCRIBE that was received, the Reason Codes of a SUBACK or an UNSUBACK that was sent, if
    /// they are several, or the Authentication Method of a CONNECT, or of an AUTH or a CONNACK that
    /// was sent. Any other event takes no memory.
    #[inline(always)]
    pub fn of(alloc: Global, event: &Event<'_>) -> Result<Note, Memory>
        ensures exact { IfOk result (λ note. note ≡ note_of (event_of event.now)) }
        ensures needed { OnErr result (note_keeps_text (note_of (event_of event.now)) ≡ true) }
    {
        match event {
            Event::Sent(item) => {
                let note = ItemNote::of(alloc, Direction::Sent, item)?;
                Ok(Note::Sent(note))
            }
            Event::Recv(item) => {
                let note = ItemNote::of(alloc, Direction::Recv, item)?;
                Ok(Note::Recv(note))
            }
            Event::Open => Ok(Note::Open),
            Event::Close { unfinished } => Ok(Note::Close {
                cuts_publish: is_publish_cut(unfinished.sent),
                cuts_packet: !unfinished.sent.is_empty(),
            }),
            Event::Rest => Ok(Note::Rest),
            Event::Release(identifier) => Ok(Note::Release(*identifier)),
        }
    }
}
