//! A packet of each type with every field and property that it may have, as it is written.

use super::harness::{
    acknowledgement, answer, is_written_in_size, list_of, reason_packet, request, whole,
};
use super::packets::{
    AUTH, CONNACK, CONNECT, DISCONNECT, PINGREQ, PINGRESP, PUBACK, PUBCOMP, PUBLISH, PUBREC,
    PUBREL, SUBACK, SUBSCRIBE, UNSUBACK, UNSUBSCRIBE,
};
use mq_packet::*;
use mq_props::{Place, Prop, Props, PropsBuf};
use std::alloc::Global;
use std::test::Fail;

const KEY_VALUE: Prop = Prop::UserProperty("k", "v");

// The properties of an answer: a reason, and two of the user's.
fn reasons(alloc: Global, place: Place) -> Result<PropsBuf, Fail> {
    list_of(
        alloc,
        place,
        &[Prop::ReasonString("why"), KEY_VALUE, KEY_VALUE],
    )
}

// Whether the packet is of this type, is written as these bytes, first byte and body, and its size
// is their number.
fn is_example(
    alloc: Global,
    packet: &Packet<'_>,
    kind: PacketType,
    example: (u8, &[u8]),
) -> Result<bool, Fail> {
    let (first, body) = example;
    let bytes = whole(alloc, first, body)?;
    Ok(is_written_in_size(alloc, packet, &bytes)? && packet.kind() == kind)
}

// A CONNECT with all that it may have.
fn connect_with<'a>(properties: Props<'a>, will_properties: Props<'a>) -> Packet<'a> {
    Packet::Connect(Connect {
        clean_start: true,
        keep_alive: 60,
        properties,
        client_identifier: "c",
        will: Some(Will {
            qos: Qos::AtLeastOnce,
            retain: true,
            properties: will_properties,
            topic: "w/t",
            payload: b"bye",
        }),
        user_name: Some("user"),
        password: Some(b"\x00pw"),
    })
}

#[test]
fn connect(rt: HostRuntime) -> Result<(), Fail> {
    let properties = list_of(
        rt.alloc(),
        Place::Connect,
        &[
            Prop::SessionExpiryInterval(10),
            Prop::AuthenticationMethod("m"),
            Prop::AuthenticationData(&[0x00, 0xFF]),
            Prop::RequestProblemInformation(1),
            Prop::RequestResponseInformation(1),
            Prop::ReceiveMaximum(20),
            Prop::TopicAliasMaximum(9),
            KEY_VALUE,
            KEY_VALUE,
            Prop::MaximumPacketSize(1000),
        ],
    )?;
    let will_properties = list_of(
        rt.alloc(),
        Place::Will,
        &[
            Prop::PayloadFormatIndicator(1),
            Prop::MessageExpiryInterval(60),
            Prop::ContentType("ct"),
            Prop::ResponseTopic("r/t"),
            Prop::CorrelationData(b"cd"),
            Prop::WillDelayInterval(5),
            KEY_VALUE,
        ],
    )?;
    let packet = connect_with(properties.as_props(), will_properties.as_props());
    assert!(rt; is_example(rt.alloc(), &packet, PacketType::Connect, CONNECT)?);
    Ok(())
}

#[test]
fn connack(rt: HostRuntime) -> Result<(), Fail> {
    let properties = list_of(
        rt.alloc(),
        Place::Connack,
        &[
            Prop::SessionExpiryInterval(10),
            Prop::AssignedClientIdentifier("id"),
            Prop::ServerKeepAlive(30),
            Prop::AuthenticationMethod("m"),
            Prop::AuthenticationData(&[0x00, 0xFF]),
            Prop::ResponseInformation("ri"),
            Prop::ServerReference("sr"),
            Prop::ReasonString("why"),
            Prop::ReceiveMaximum(20),
            Prop::TopicAliasMaximum(9),
            Prop::MaximumQos(1),
            Prop::RetainAvailable(0),
            KEY_VALUE,
            Prop::MaximumPacketSize(1000),
            Prop::WildcardSubscriptionAvailable(1),
            Prop::SubscriptionIdentifierAvailable(0),
            Prop::SharedSubscriptionAvailable(1),
        ],
    )?;
    let packet = Packet::Connack(Connack {
        session_present: true,
        code: 0x00,
        properties: properties.as_props(),
    });
    assert!(rt; is_example(rt.alloc(), &packet, PacketType::Connack, CONNACK)?);
    Ok(())
}

#[test]
fn publish(rt: HostRuntime) -> Result<(), Fail> {
    let properties = list_of(
        rt.alloc(),
        Place::Publish,
        &[
            Prop::PayloadFormatIndicator(1),
            Prop::MessageExpiryInterval(60),
            Prop::ContentType("ct"),
            Prop::ResponseTopic("r/t"),
            Prop::CorrelationData(b"cd"),
            Prop::SubscriptionIdentifier(300),
            Prop::SubscriptionIdentifier(300),
            Prop::TopicAlias(3),
            KEY_VALUE,
            KEY_VALUE,
        ],
    )?;
    let packet = Packet::Publish(Publish {
        duplicate: true,
        qos: Qos::ExactlyOnce,
        retain: true,
        topic: "a/b",
        identifier: Some(0x1234),
        properties: properties.as_props(),
        payload: b"payload",
    });
    assert!(rt; is_example(rt.alloc(), &packet, PacketType::Publish, PUBLISH)?);
    Ok(())
}

#[test]
fn acknowledgements(rt: HostRuntime) -> Result<(), Fail> {
    let rows = [
        (PacketType::Puback, Place::Puback, 1, 0x10, PUBACK),
        (PacketType::Pubrec, Place::Pubrec, 2, 0x97, PUBREC),
        (PacketType::Pubrel, Place::Pubrel, 3, 0x92, PUBREL),
        (PacketType::Pubcomp, Place::Pubcomp, 65_535, 0x92, PUBCOMP),
    ];
    for (kind, place, identifier, code, example) in rows {
        let properties = reasons(rt.alloc(), place)?;
        let given = acknowledgement(identifier, code, properties.as_props());
        let packet = match kind {
            PacketType::Puback => Packet::Puback(given),
            PacketType::Pubrec => Packet::Pubrec(given),
            PacketType::Pubrel => Packet::Pubrel(given),
            _ => Packet::Pubcomp(given),
        };
        assert!(rt; is_example(rt.alloc(), &packet, kind, example)?, "{kind:?}");
    }
    Ok(())
}

// Whether a SUBSCRIBE with all that it may have is written as the example.
fn is_subscribe_written(alloc: Global) -> Result<bool, Fail> {
    let properties = list_of(
        alloc,
        Place::Subscribe,
        &[Prop::SubscriptionIdentifier(300), KEY_VALUE],
    )?;
    let filters = Filters::of(b"\x00\x03a/#\x2D\x00\x03+/b\x02", true);
    let filters = filters.ok_or("no filters")?;
    let packet = Packet::Subscribe(request(4, properties.as_props(), filters));
    is_example(alloc, &packet, PacketType::Subscribe, SUBSCRIBE)
}

#[test]
fn subscribe(rt: HostRuntime) -> Result<(), Fail> {
    assert!(rt; is_subscribe_written(rt.alloc())?);
    Ok(())
}

#[test]
fn suback(rt: HostRuntime) -> Result<(), Fail> {
    let properties = reasons(rt.alloc(), Place::Suback)?;
    let packet = Packet::Suback(answer(4, properties.as_props(), &[0x01, 0x02, 0xA2]));
    assert!(rt; is_example(rt.alloc(), &packet, PacketType::Suback, SUBACK)?);
    Ok(())
}

#[test]
fn unsubscribe(rt: HostRuntime) -> Result<(), Fail> {
    let properties = list_of(rt.alloc(), Place::Unsubscribe, &[KEY_VALUE])?;
    let filters = Filters::of(b"\x00\x03a/#\x00\x06$SYS/+", false);
    let filters = filters.ok_or("no filters")?;
    let packet = Packet::Unsubscribe(request(5, properties.as_props(), filters));
    assert!(rt; is_example(rt.alloc(), &packet, PacketType::Unsubscribe, UNSUBSCRIBE)?);
    Ok(())
}

#[test]
fn unsuback(rt: HostRuntime) -> Result<(), Fail> {
    let properties = reasons(rt.alloc(), Place::Unsuback)?;
    let packet = Packet::Unsuback(answer(5, properties.as_props(), &[0x00, 0x11]));
    assert!(rt; is_example(rt.alloc(), &packet, PacketType::Unsuback, UNSUBACK)?);
    Ok(())
}

#[test]
fn pings(rt: HostRuntime) -> Result<(), Fail> {
    let is_request = is_example(rt.alloc(), &Packet::Pingreq, PacketType::Pingreq, PINGREQ)?;
    assert!(rt; is_request);
    let is_response = is_example(
        rt.alloc(),
        &Packet::Pingresp,
        PacketType::Pingresp,
        PINGRESP,
    )?;
    assert!(rt; is_response);
    Ok(())
}

#[test]
fn disconnect(rt: HostRuntime) -> Result<(), Fail> {
    let properties = list_of(
        rt.alloc(),
        Place::Disconnect,
        &[
            Prop::SessionExpiryInterval(10),
            Prop::ServerReference("sr"),
            Prop::ReasonString("why"),
            KEY_VALUE,
        ],
    )?;
    let packet = Packet::Disconnect(reason_packet(0x9D, properties.as_props()));
    assert!(rt; is_example(rt.alloc(), &packet, PacketType::Disconnect, DISCONNECT)?);
    Ok(())
}

#[test]
fn auth(rt: HostRuntime) -> Result<(), Fail> {
    let properties = list_of(
        rt.alloc(),
        Place::Auth,
        &[
            Prop::AuthenticationMethod("m"),
            Prop::AuthenticationData(&[0x00, 0xFF]),
            Prop::ReasonString("why"),
            KEY_VALUE,
        ],
    )?;
    let packet = Packet::Auth(reason_packet(0x18, properties.as_props()));
    assert!(rt; is_example(rt.alloc(), &packet, PacketType::Auth, AUTH)?);
    Ok(())
}
