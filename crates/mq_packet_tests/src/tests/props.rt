use super::harness::list_of;
use mq_props::Place::*;
use mq_props::*;
use mq_wire::{Cursor, Reason, put_varint};
use std::alloc::Global;
use std::test::Fail;

const PLACES: [Place; 14] = [
    Connect,
    Will,
    Connack,
    Publish,
    Puback,
    Pubrec,
    Pubrel,
    Pubcomp,
    Subscribe,
    Suback,
    Unsubscribe,
    Unsuback,
    Disconnect,
    Auth,
];

// Each property with a value, and the lists that it is allowed in, as the standard's table has
// them.
#[rattlefmt::skip]
const PROPERTIES: [(&[u8], &[Place]); 27] = [
    (&[0x01, 1], &[Publish, Will]),
    (&[0x02, 0, 0, 0, 60], &[Publish, Will]),
    (&[0x03, 0, 1, b'a'], &[Publish, Will]),
    (&[0x08, 0, 1, b'r'], &[Publish, Will]),
    (&[0x09, 0, 2, 1, 2], &[Publish, Will]),
    (&[0x0B, 5], &[Publish, Subscribe]),
    (&[0x11, 0, 0, 0, 9], &[Connect, Connack, Disconnect]),
    (&[0x12, 0, 1, b'c'], &[Connack]),
    (&[0x13, 0, 7], &[Connack]),
    (&[0x15, 0, 1, b'm'], &[Connect, Connack, Auth]),
    (&[0x16, 0, 1, 8], &[Connect, Connack, Auth]),
    (&[0x17, 1], &[Connect]),
    (&[0x18, 0, 0, 0, 3], &[Will]),
    (&[0x19, 0], &[Connect]),
    (&[0x1A, 0, 1, b'i'], &[Connack]),
    (&[0x1C, 0, 1, b's'], &[Connack, Disconnect]),
    (&[0x1F, 0, 1, b'w'], &[Connack, Puback, Pubrec, Pubrel, Pubcomp, Suback, Unsuback, Disconnect, Auth]),
    (&[0x21, 0, 10], &[Connect, Connack]),
    (&[0x22, 0, 11], &[Connect, Connack]),
    (&[0x23, 0, 12], &[Publish]),
    (&[0x24, 1], &[Connack]),
    (&[0x25, 0], &[Connack]),
    (&[0x26, 0, 1, b'n', 0, 1, b'v'], &PLACES),
    (&[0x27, 0, 0, 1, 0], &[Connect, Connack]),
    (&[0x28, 1], &[Connack]),
    (&[0x29, 0], &[Connack]),
    (&[0x2A, 1], &[Connack]),
];

// A list of these bytes, with its length before them.
fn spelled(alloc: Global, parts: &[&[u8]]) -> Result<Vec<u8>, Fail> {
    let mut body = Vec::new(alloc);
    for part in parts {
        body.extend_from_slice(part)?;
    }
    let mut list = Vec::new(alloc);
    put_varint(&mut list, u32::try_from(body.len())?)?;
    list.extend_from_slice(&body)?;
    Ok(list)
}

// The fault of a list, if it has one, and how many bytes are left after it.
fn read(bytes: &[u8], place: Place) -> (Option<(usize, PropReason)>, usize) {
    let mut cursor = Cursor::new(bytes);
    let fault = match Props::read(&mut cursor, place) {
        Ok(_) => None,
        Err(fault) => Some((fault.at, fault.reason)),
    };
    (fault, cursor.rest().len())
}

// Whether a list of this property alone, and one that has it twice, are read as the standard's
// table says.
fn is_read_as_stated(
    alloc: Global,
    property: &[u8],
    places: &[Place],
    place: Place,
) -> Result<bool, Fail> {
    let list = spelled(alloc, &[property])?;
    let twice = spelled(alloc, &[property, property])?;
    if !places.contains(&place) {
        return Ok(read(&list, place) == (Some((1, PropReason::NotAllowed)), list.len()));
    }
    let first = property.first().copied().unwrap_or(0);
    let wanted = if first == 0x26 || first == 0x0B && place == Publish {
        (None, 0)
    } else {
        (Some((list.len(), PropReason::Repeated)), twice.len())
    };
    Ok(read(&list, place) == (None, 0) && read(&twice, place) == wanted)
}

// The first list in which the property isn't read as the standard's table says.
fn first_other_place(
    alloc: Global,
    property: &[u8],
    places: &[Place],
) -> Result<Option<Place>, Fail> {
    for place in &PLACES {
        if !is_read_as_stated(alloc, property, places, *place)? {
            return Ok(Some(*place));
        }
    }
    Ok(None)
}

#[test]
fn every_property_in_every_list(rt: HostRuntime) -> Result<(), Fail> {
    for (property, places) in &PROPERTIES {
        let other = first_other_place(rt.alloc(), property, places)?;
        assert_eq!(rt; other, None, "{property:?}");
    }
    Ok(())
}

// Whether a property of this identifier is in the standard's table.
fn is_known(identifier: u8) -> bool {
    PROPERTIES
        .iter()
        .any(|(property, _)| property.first() == Some(&identifier))
}

// Whether a list of this identifier alone is refused for it.
fn is_unknown(alloc: Global, identifier: u8) -> Result<bool, Fail> {
    let list = spelled(alloc, &[&[identifier]])?;
    Ok(read(&list, Connack).0 == Some((1, PropReason::Unknown)))
}

#[test]
fn unknown_identifiers(rt: HostRuntime) -> Result<(), Fail> {
    for identifier in 0..128u8 {
        let is_refused = is_unknown(rt.alloc(), identifier)?;
        assert!(rt; is_refused != is_known(identifier), "at {identifier}");
    }
    Ok(())
}

#[test]
fn identifier_of_two_bytes(rt: HostRuntime) {
    let fault = read(&[2, 0x80, 0x01], Connack).0;
    assert_eq!(rt; fault, Some((1, PropReason::Unknown)));
}

const BAD: Option<PropReason> = Some(PropReason::Value);

// Properties, and why they are invalid, if they are: the bounds of each value.
const BOUNDS: [(Place, &[u8], Option<PropReason>); 34] = [
    (Publish, &[0x01, 0], None),
    (Publish, &[0x01, 255], None),
    (Publish, &[0x02, 0, 0, 0, 0], None),
    (Publish, &[0x0B, 0], BAD),
    (Publish, &[0x0B, 1], None),
    (Publish, &[0x0B, 0xFF, 0xFF, 0xFF, 0x7F], None),
    (Connect, &[0x11, 255, 255, 255, 255], None),
    (Connack, &[0x13, 0, 0], None),
    (Connect, &[0x17, 0], None),
    (Connect, &[0x17, 2], BAD),
    (Connect, &[0x19, 1], None),
    (Connect, &[0x19, 2], BAD),
    (Connect, &[0x21, 0, 0], BAD),
    (Connect, &[0x21, 0, 1], None),
    (Connect, &[0x21, 255, 255], None),
    (Connect, &[0x22, 0, 0], None),
    (Publish, &[0x23, 0, 0], BAD),
    (Publish, &[0x23, 255, 255], None),
    (Connack, &[0x24, 0], None),
    (Connack, &[0x24, 2], BAD),
    (Connack, &[0x25, 1], None),
    (Connack, &[0x25, 2], BAD),
    (Connect, &[0x27, 0, 0, 0, 0], BAD),
    (Connect, &[0x27, 0, 0, 0, 1], None),
    (Connack, &[0x28, 0], None),
    (Connack, &[0x28, 255], BAD),
    (Connack, &[0x29, 1], None),
    (Connack, &[0x29, 2], BAD),
    (Connack, &[0x2A, 0], None),
    (Connack, &[0x2A, 2], BAD),
    (Publish, &[0x08, 0, 1, b'+'], Some(PropReason::Wildcard)),
    (Will, &[0x08, 0, 1, b'#'], None),
    (Publish, &[0x03, 0, 1, b'#'], None),
    (Publish, &[0x09, 0, 0], None),
];

// The fault of a list of this property alone.
fn fault_alone(
    alloc: Global,
    property: &[u8],
    place: Place,
) -> Result<Option<(usize, PropReason)>, Fail> {
    let list = spelled(alloc, &[property])?;
    Ok(read(&list, place).0)
}

#[test]
fn bounds(rt: HostRuntime) -> Result<(), Fail> {
    for (place, property, reason) in &BOUNDS {
        let fault = fault_alone(rt.alloc(), property, *place)?;
        assert_eq!(rt;
            fault,
            reason.map(|reason| (2, reason)),
            "{property:?} in {place:?}"
        );
    }
    Ok(())
}

// A list in which a field is bad, where that is, and why.
const BAD_FIELDS: [(&[u8], usize, PropReason); 10] = [
    (&[], 0, PropReason::Wire(Reason::Short)),
    (&[0x80, 0x00], 0, PropReason::Wire(Reason::Overlong)),
    (&[3, 0x01, 1], 0, PropReason::Wire(Reason::Short)),
    (&[1, 0x01, 1], 2, PropReason::Wire(Reason::Short)),
    (
        &[3, 0x01, 1, 0x80, 0x01],
        3,
        PropReason::Wire(Reason::Short),
    ),
    (&[3, 0x81, 0x00, 1], 1, PropReason::Wire(Reason::Overlong)),
    (&[4, 0x03, 0, 1, 0xFF], 2, PropReason::Wire(Reason::NotUtf8)),
    (
        &[7, 0x26, 0, 1, b'a', 0, 1, 0],
        2,
        PropReason::Wire(Reason::Nul),
    ),
    (&[5, 0x23, 0, 1, 0x23, 0, 1], 4, PropReason::Repeated),
    (&[4, 0x0B, 0, 0x24, 9], 2, PropReason::Value),
];

// Whether the list of a PUBLISH is refused there and for this reason, and none of it is taken.
fn is_bad(bytes: &[u8], at: usize, reason: PropReason) -> bool {
    read(bytes, Publish) == (Some((at, reason)), bytes.len())
}

#[test]
fn first_bad_field(rt: HostRuntime) {
    for (bytes, at, reason) in &BAD_FIELDS {
        assert!(rt; is_bad(bytes, *at, *reason), "at {bytes:?}");
    }
}

#[test]
fn leaves_what_follows_a_list(rt: HostRuntime) {
    assert_eq!(rt; read(&[2, 0x01, 1, 7, 8], Publish), (None, 2));
    assert_eq!(rt; read(&[0, 9], Pubrel), (None, 1));
}

// Pushes each of these to the list, and returns the first one at which the result isn't the stated
// one.
fn first_other(list: &mut PropsBuf, rows: &[(Prop<'_>, Result<(), PushFault>)]) -> Option<usize> {
    for (at, (prop, answer)) in rows.iter().enumerate() {
        if list.push(prop) != *answer {
            return Some(at);
        }
    }
    None
}

// The properties that the list of a PUBLISH refuses, and why.
const REFUSED: [(Prop, Result<(), PushFault>); 7] = [
    (Prop::TopicAlias(0), Err(PushFault::Value)),
    (Prop::ReceiveMaximum(5), Err(PushFault::NotAllowed)),
    (Prop::ResponseTopic("a/#"), Err(PushFault::Value)),
    (Prop::ContentType("\0"), Err(PushFault::Value)),
    (Prop::UserProperty("a", "\0"), Err(PushFault::Value)),
    (Prop::SubscriptionIdentifier(0), Err(PushFault::Value)),
    (
        Prop::SubscriptionIdentifier(268_435_456),
        Err(PushFault::Value),
    ),
];

// Whether the list of a PUBLISH answers to each of these as it is stated, and has these bytes then.
fn is_pushed_as(alloc: Global, rows: &[(Prop<'_>, Result<(), PushFault>)], bytes: &[u8]) -> bool {
    let mut list = PropsBuf::new(alloc, Publish);
    first_other(&mut list, rows).is_none()
        && list.as_props().as_bytes() == bytes
        && list.as_props().place() == Publish
}

#[test]
fn what_a_list_refuses(rt: HostRuntime) {
    assert!(rt; is_pushed_as(rt.alloc(), &REFUSED, &[]));
}

// Whether the list of a PUBLISH takes the longest text, and refuses a longer one and longer data.
fn takes_the_longest(list: &mut PropsBuf, longest: &str, longer: &str) -> bool {
    list.push(&Prop::ContentType(longer)) == Err(PushFault::TooLong)
        && list.push(&Prop::UserProperty("a", longer)) == Err(PushFault::TooLong)
        && list.push(&Prop::CorrelationData(longer.as_bytes())) == Err(PushFault::TooLong)
        && list.push(&Prop::ContentType(longest)) == Ok(())
}

// Whether that holds of texts of `a`.
fn takes_long_texts(alloc: Global) -> Result<bool, Fail> {
    let longest = "a".repeat(alloc, 65_535)?;
    let longer = "a".repeat(alloc, 65_536)?;
    let mut list = PropsBuf::new(alloc, Publish);
    Ok(takes_the_longest(&mut list, longest.as_str(), longer.as_str()))
}

#[test]
fn the_longest_text_in_a_list(rt: HostRuntime) -> Result<(), Fail> {
    assert!(rt; takes_long_texts(rt.alloc())?);
    Ok(())
}

// Properties that are pushed to the list of a PUBLISH one after the other, and the answer to each.
const TAKEN: [(Prop, Result<(), PushFault>); 7] = [
    (Prop::TopicAlias(1), Ok(())),
    (Prop::TopicAlias(1), Err(PushFault::Repeated)),
    (Prop::TopicAlias(0), Err(PushFault::Repeated)),
    (Prop::UserProperty("a", "b"), Ok(())),
    (Prop::UserProperty("a", "b"), Ok(())),
    (Prop::SubscriptionIdentifier(268_435_455), Ok(())),
    (Prop::SubscriptionIdentifier(300), Ok(())),
];

// The bytes of the list then.
const TAKEN_BYTES: &[u8] = &[
    0x23, 0, 1, 0x26, 0, 1, b'a', 0, 1, b'b', 0x26, 0, 1, b'a', 0, 1, b'b', 0x0B, 0xFF, 0xFF, 0xFF,
    0x7F, 0x0B, 0xAC, 0x02,
];

#[test]
fn what_a_list_takes(rt: HostRuntime) {
    assert!(rt; is_pushed_as(rt.alloc(), &TAKEN, TAKEN_BYTES));
}

// Whether a list has these properties, in this order, and no other.
fn are_in_order(props: &Props<'_>) -> bool {
    let mut iter = props.iter();
    matches!(iter.next(), Some(Prop::RetainAvailable(1)))
        && matches!(iter.next(), Some(Prop::ServerKeepAlive(9)))
        && matches!(iter.next(), Some(Prop::ReasonString("no")))
        && iter.next().is_none()
}

// Whether a CONNACK's list of these bytes is read, has them in order, and says what is there.
fn is_read_in_order(bytes: &[u8]) -> bool {
    match Props::read(&mut Cursor::new(bytes), Connack) {
        Ok(props) => {
            are_in_order(&props)
                && props.get_reason_string() == Some("no")
                && props.get_maximum_qos().is_none()
        }
        Err(_) => false,
    }
}

#[test]
fn in_order(rt: HostRuntime) {
    assert!(rt; is_read_in_order(&[10, 0x25, 1, 0x13, 0, 9, 0x1F, 0, 2, b'n', b'o']));
}

#[test]
fn a_length_alone(rt: HostRuntime) {
    assert!(rt; read(&[6], Connack).0.is_some());
}

// Whether the list of no properties has none.
fn is_empty(place: Place) -> bool {
    let props = Props::empty(place);
    props.place() == place
        && props.as_bytes().is_empty()
        && props.iter().next().is_none()
        && props.get_user_property().is_none()
}

#[test]
fn a_list_of_no_properties(rt: HostRuntime) {
    for place in &PLACES {
        assert!(rt; is_empty(*place), "{place:?}");
    }
}

// Whether a PUBLISH's list is read at the front of these bytes, and has those.
fn has_bytes(bytes: &[u8], wanted: &[u8]) -> bool {
    match Props::read(&mut Cursor::new(bytes), Publish) {
        Ok(props) => props.place() == Publish && props.as_bytes() == wanted,
        Err(_) => false,
    }
}

#[test]
fn the_bytes_of_a_list(rt: HostRuntime) {
    assert!(rt; has_bytes(&[5, 0x23, 0, 1, 0x01, 1, 0xFF], &[0x23, 0, 1, 0x01, 1]));
}

// Whether a list that is read has a Message Expiry Interval, a Subscription Identifier, a Reason
// String and a User Property.
fn kinds_in(place: Place, bytes: &[u8]) -> Option<[bool; 4]> {
    let props = Props::read(&mut Cursor::new(bytes), place).ok()?;
    Some([
        props.has_message_expiry_interval(),
        props.has_subscription_identifier(),
        props.has_reason_string(),
        props.has_user_property(),
    ])
}

static KINDS: [(Place, &[u8], [bool; 4]); 6] = [
    (Publish, &[0], [false, false, false, false]),
    (
        Publish,
        &[7, 0x02, 0, 0, 0, 60, 0x0B, 1],
        [true, true, false, false],
    ),
    (
        Publish,
        &[8, 0x0B, 0x80, 1, 0x26, 0, 0, 0, 0],
        [false, true, false, true],
    ),
    (
        Publish,
        &[7, 0x26, 0, 1, b'+', 0, 1, b'v'],
        [false, false, false, true],
    ),
    (Puback, &[4, 0x1F, 0, 1, b'x'], [false, false, true, false]),
    (Will, &[5, 0x02, 0, 0, 0, 60], [true, false, false, false]),
];

#[test]
fn which_kinds_are_there(rt: HostRuntime) {
    for (place, bytes, kinds) in &KINDS {
        assert_eq!(rt; kinds_in(*place, bytes), Some(*kinds));
    }
}

// Whether the first of each text and data in the list of a PUBLISH is the one that was pushed first.
fn are_first_texts_of_publish(props: &Props<'_>) -> bool {
    props.get_content_type() == Some("c")
        && props.get_response_topic() == Some("r")
        && props.get_correlation_data() == Some([7].as_slice())
        && props.get_user_property() == Some(("n", "v"))
}

// The same of each number.
fn are_first_numbers_of_publish(props: &Props<'_>) -> bool {
    props.get_payload_format_indicator() == Some(1)
        && props.get_message_expiry_interval() == Some(2)
        && props.get_subscription_identifier() == Some(4)
        && props.get_topic_alias() == Some(6)
}

const OF_PUBLISH: [Prop; 10] = [
    Prop::PayloadFormatIndicator(1),
    Prop::MessageExpiryInterval(2),
    Prop::ContentType("c"),
    Prop::ResponseTopic("r"),
    Prop::CorrelationData(&[7]),
    Prop::SubscriptionIdentifier(4),
    Prop::SubscriptionIdentifier(5),
    Prop::TopicAlias(6),
    Prop::UserProperty("n", "v"),
    Prop::UserProperty("m", "w"),
];

// Whether both hold of the list of these.
fn are_firsts_of_publish(alloc: Global) -> Result<bool, Fail> {
    let list = list_of(alloc, Publish, &OF_PUBLISH)?;
    let props = list.as_props();
    Ok(are_first_texts_of_publish(&props) && are_first_numbers_of_publish(&props))
}

#[test]
fn first_of_each_in_publish(rt: HostRuntime) -> Result<(), Fail> {
    assert!(rt; are_firsts_of_publish(rt.alloc())?);
    Ok(())
}

// Whether each text and data in the list of a CONNACK is the one that was pushed.
fn are_texts_of_connack(props: &Props<'_>) -> bool {
    props.get_assigned_client_identifier() == Some("a")
        && props.get_authentication_method() == Some("m")
        && props.get_response_information() == Some("i")
        && props.get_server_reference() == Some("s")
        && props.get_reason_string() == Some("r")
        && props.get_authentication_data() == Some([3].as_slice())
}

// The same of each number.
fn are_numbers_of_connack(props: &Props<'_>) -> bool {
    props.get_session_expiry_interval() == Some(1)
        && props.get_maximum_packet_size() == Some(6)
        && props.get_server_keep_alive() == Some(2)
        && props.get_receive_maximum() == Some(4)
        && props.get_topic_alias_maximum() == Some(5)
}

// The same of what the Server can do.
fn are_abilities_of_connack(props: &Props<'_>) -> bool {
    props.get_maximum_qos() == Some(1)
        && props.get_retain_available() == Some(0)
        && props.get_wildcard_subscription_available() == Some(1)
        && props.get_subscription_identifier_available() == Some(0)
        && props.get_shared_subscription_available() == Some(1)
}

const OF_CONNACK: [Prop; 16] = [
    Prop::SessionExpiryInterval(1),
    Prop::AssignedClientIdentifier("a"),
    Prop::ServerKeepAlive(2),
    Prop::AuthenticationMethod("m"),
    Prop::AuthenticationData(&[3]),
    Prop::ResponseInformation("i"),
    Prop::ServerReference("s"),
    Prop::ReasonString("r"),
    Prop::ReceiveMaximum(4),
    Prop::TopicAliasMaximum(5),
    Prop::MaximumQos(1),
    Prop::RetainAvailable(0),
    Prop::MaximumPacketSize(6),
    Prop::WildcardSubscriptionAvailable(1),
    Prop::SubscriptionIdentifierAvailable(0),
    Prop::SharedSubscriptionAvailable(1),
];

// Whether all three hold of the list of these.
fn are_firsts_of_connack(alloc: Global) -> Result<bool, Fail> {
    let list = list_of(alloc, Connack, &OF_CONNACK)?;
    let props = list.as_props();
    let are_numbers = are_numbers_of_connack(&props) && are_abilities_of_connack(&props);
    Ok(are_texts_of_connack(&props) && are_numbers)
}

#[test]
fn first_of_each_in_connack(rt: HostRuntime) -> Result<(), Fail> {
    assert!(rt; are_firsts_of_connack(rt.alloc())?);
    Ok(())
}

const OF_CONNECT: [Prop; 2] = [
    Prop::RequestProblemInformation(0),
    Prop::RequestResponseInformation(1),
];

// Whether each property of a CONNECT that no other packet has is the one that was pushed.
fn are_firsts_of_connect(alloc: Global) -> Result<bool, Fail> {
    let list = list_of(alloc, Connect, &OF_CONNECT)?;
    let props = list.as_props();
    let problem = props.get_request_problem_information();
    Ok(problem == Some(0) && props.get_request_response_information() == Some(1))
}

#[test]
fn first_of_each_in_connect(rt: HostRuntime) -> Result<(), Fail> {
    assert!(rt; are_firsts_of_connect(rt.alloc())?);
    Ok(())
}

// The Will Delay Interval in the list of a Will that has this one alone.
fn will_delay(alloc: Global, interval: u32) -> Result<Option<u32>, Fail> {
    let list = list_of(alloc, Will, &[Prop::WillDelayInterval(interval)])?;
    Ok(list.as_props().get_will_delay_interval())
}

#[test]
fn first_of_each_in_will(rt: HostRuntime) -> Result<(), Fail> {
    assert_eq!(rt; will_delay(rt.alloc(), 8)?, Some(8));
    Ok(())
}
