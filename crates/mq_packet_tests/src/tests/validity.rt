//! Which packets some bytes spell.

use super::harness::{acknowledgement, answer, list_of, reason_packet, request};
use mq_packet::*;
use mq_props::{Place, Prop, Props};
use std::alloc::Global;
use std::test::Fail;

// Whether a CONNACK with this Reason Code and an empty list of this place is valid.
fn is_connack(code: u8, place: Place) -> bool {
    is_valid(&Packet::Connack(Connack {
        session_present: false,
        code,
        properties: Props::empty(place),
    }))
}

#[test]
fn connacks(rt: HostRuntime) {
    assert!(rt; is_connack(0x00, Place::Connack));
    assert!(rt; !is_connack(0x8B, Place::Connack));
    assert!(rt; !is_connack(0x00, Place::Connect));
}

// Whether a PUBACK without properties is valid.
fn is_puback(identifier: u16, code: u8) -> bool {
    is_valid(&Packet::Puback(acknowledgement(identifier, code, Props::empty(Place::Puback))))
}

#[test]
fn pubacks(rt: HostRuntime) {
    assert!(rt; is_puback(1, 0x10));
    assert!(rt; !is_puback(0, 0x10));
    assert!(rt; !is_puback(1, 0x92));
}

#[test]
fn a_disconnect_and_an_auth(rt: HostRuntime) {
    let list = Props::empty(Place::Disconnect);
    let is_disconnect = is_valid(&Packet::Disconnect(reason_packet(0x01, list)));
    let list = Props::empty(Place::Disconnect);
    let is_auth = is_valid(&Packet::Auth(reason_packet(0x00, list)));
    assert_eq!(rt; (is_disconnect, is_auth), (false, false));
}

// Whether a PUBLISH without properties and payload is valid.
fn is_publish(duplicate: bool, qos: Qos, topic: &str, identifier: Option<u16>) -> bool {
    is_valid(&Packet::Publish(Publish {
        duplicate,
        qos,
        retain: false,
        topic,
        identifier,
        properties: Props::empty(Place::Publish),
        payload: &[],
    }))
}

// DUP, the QoS, the Topic Name and the Packet Identifier of a PUBLISH, and whether it is valid.
const PUBLISHES: [(bool, Qos, &str, Option<u16>, bool); 13] = [
    (false, Qos::AtMostOnce, "a", None, true),
    (true, Qos::AtMostOnce, "a", None, false),
    (false, Qos::AtMostOnce, "a", Some(1), false),
    (false, Qos::AtLeastOnce, "a", None, false),
    (false, Qos::AtLeastOnce, "a", Some(0), false),
    (true, Qos::AtLeastOnce, "a", Some(1), true),
    (false, Qos::ExactlyOnce, "a", Some(65_535), true),
    (false, Qos::ExactlyOnce, "a", None, false),
    (false, Qos::AtMostOnce, "", None, false),
    (false, Qos::AtMostOnce, "a/#", None, false),
    (false, Qos::AtMostOnce, "+", None, false),
    (false, Qos::AtMostOnce, "a\0", None, false),
    (false, Qos::AtMostOnce, "/", None, true),
];

#[test]
fn publishes(rt: HostRuntime) {
    for (duplicate, qos, topic, identifier, wanted) in &PUBLISHES {
        let is_valid = is_publish(*duplicate, *qos, topic, *identifier);
        assert!(rt; is_valid == *wanted, "{topic} {qos:?} {identifier:?}");
    }
}

// Whether a PUBLISH on a topic of so many bytes is valid.
fn is_publish_on(alloc: Global, size: usize) -> Result<bool, Fail> {
    let topic = "a".repeat(alloc, size)?;
    Ok(is_publish(false, Qos::AtMostOnce, topic.as_str(), None))
}

#[test]
fn the_longest_topic(rt: HostRuntime) -> Result<(), Fail> {
    assert!(rt; is_publish_on(rt.alloc(), 65_535)?);
    assert!(rt; !is_publish_on(rt.alloc(), 65_536)?);
    Ok(())
}

// Whether a PUBLISH with this Topic Alias, which stands for a Topic Name, is valid.
fn is_publish_with_alias(alloc: Global, alias: u16) -> Result<bool, Fail> {
    let list = list_of(alloc, Place::Publish, &[Prop::TopicAlias(alias)])?;
    Ok(is_valid(&Packet::Publish(Publish {
        duplicate: false,
        qos: Qos::AtMostOnce,
        retain: false,
        topic: "",
        identifier: None,
        properties: list.as_props(),
        payload: &[],
    })))
}

#[test]
fn aliases(rt: HostRuntime) -> Result<(), Fail> {
    assert!(rt; is_publish_with_alias(rt.alloc(), 5)?);
    Ok(())
}

// Whether a CONNECT with a Will, a User Name and a Password is valid.
fn is_connect(
    client_identifier: &str,
    topic: &str,
    user_name: &str,
    password: &[u8],
    place: Place,
) -> bool {
    is_valid(&Packet::Connect(Connect {
        clean_start: true,
        keep_alive: 0,
        properties: Props::empty(Place::Connect),
        client_identifier,
        will: Some(Will {
            qos: Qos::AtMostOnce,
            retain: false,
            properties: Props::empty(place),
            topic,
            payload: &[],
        }),
        user_name: Some(user_name),
        password: Some(password),
    }))
}

// The same with a Password of so many bytes.
fn is_connect_with(alloc: Global, topic: &str, size: usize) -> Result<bool, Fail> {
    let password = vec![in alloc; b'a'; size]?;
    Ok(is_connect("c", topic, "u", &password, Place::Will))
}

#[test]
fn the_longest_password(rt: HostRuntime) -> Result<(), Fail> {
    assert!(rt; is_connect_with(rt.alloc(), "#", 65_535)?);
    assert!(rt; !is_connect_with(rt.alloc(), "t", 65_536)?);
    Ok(())
}

#[test]
fn connects(rt: HostRuntime) {
    assert!(rt; !is_connect("c\0", "t", "u", &[], Place::Will));
    assert!(rt; !is_connect("c", "t\0", "u", &[], Place::Will));
    assert!(rt; !is_connect("c", "t", "u\0", &[], Place::Will));
    assert!(rt; !is_connect("c", "t", "u", &[], Place::Publish));
}

// Whether a SUBSCRIBE with these filters is valid; None if the bytes are none.
fn is_subscribe(identifier: u16, bytes: &[u8], options: bool) -> Option<bool> {
    let filters = Filters::of(bytes, options)?;
    let asked = request(identifier, Props::empty(Place::Subscribe), filters);
    Some(is_valid(&Packet::Subscribe(asked)))
}

// The same of an UNSUBSCRIBE.
fn is_unsubscribe(identifier: u16, bytes: &[u8], options: bool) -> Option<bool> {
    let filters = Filters::of(bytes, options)?;
    let asked = request(identifier, Props::empty(Place::Unsubscribe), filters);
    Some(is_valid(&Packet::Unsubscribe(asked)))
}

// A filter with options, and one without.
const ASKED: &[u8] = &[0, 1, b'a', 1];

const PLAIN: &[u8] = &[0, 1, b'a'];

#[test]
fn subscribes(rt: HostRuntime) {
    assert_eq!(rt; is_subscribe(1, ASKED, true), Some(true));
    assert_eq!(rt; is_subscribe(1, PLAIN, false), Some(false));
    assert_eq!(rt; is_subscribe(0, ASKED, true), Some(false));
}

#[test]
fn unsubscribes(rt: HostRuntime) {
    assert_eq!(rt; is_unsubscribe(1, PLAIN, false), Some(true));
    assert_eq!(rt; is_unsubscribe(1, ASKED, true), Some(false));
}

// Whether a SUBACK with these Reason Codes and an empty list of this place is valid.
fn is_suback(codes: &[u8], place: Place) -> bool {
    is_valid(&Packet::Suback(answer(1, Props::empty(place), codes)))
}

#[test]
fn subacks(rt: HostRuntime) {
    assert!(rt; is_suback(&[0x00, 0x02, 0x80], Place::Suback));
    assert!(rt; is_suback(&[], Place::Suback));
    assert!(rt; !is_suback(&[0x00, 0x11], Place::Suback));
}

// The same of an UNSUBACK.
fn is_unsuback(codes: &[u8], place: Place) -> bool {
    is_valid(&Packet::Unsuback(answer(1, Props::empty(place), codes)))
}

#[test]
fn unsubacks(rt: HostRuntime) {
    assert!(rt; is_unsuback(&[0x11], Place::Unsuback));
    assert!(rt; !is_unsuback(&[0x01], Place::Unsuback));
    assert!(rt; !is_unsuback(&[0x11], Place::Suback));
}
