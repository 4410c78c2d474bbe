//! What the types of a packet's fields say of it. The functions here only query the fields: they
//! are there for their contracts.

ghost use Rattle.std.specs.Prelude.{IfSome};
ghost use Rattle.std.specs.Str.{IsUtf8};
ghost use Rattle.std.specs.Option.{option_map};
ghost use Rattle.std.specs.List.{AllByRecursion};
ghost use Rattle.mq_wire.specs.Spellings.{IsTwoBytes};
ghost use Rattle.mq_packet.specs.Reading.{view, will_view};
ghost use Rattle.mq_packet.specs.Valid.{IsListed, IsWill, IsIdentified, IsAskedFilter, IsRequest, IsTyped};

use crate::filters::Filters;
use crate::packet::{Acknowledgement, Answer, Connect, Packet, Publish, Request, Will};
use mq_props::Props;

// A property list is valid in its own place, and isn't longer than its length can say.
fn list_facts(list: &Props<'_>)
    ensures { IsListed list.now }
{
    let _bytes = list.as_bytes();
}

// A text is well-formed UTF-8 (MQTT 5.0, section 1.5.4).
fn text_facts(text: &str)
    ensures { IsUtf8 text.now }
{
    let _bytes = text.as_bytes();
}

// A number fits in a Two Byte Integer (MQTT 5.0, section 1.5.2).
fn number_facts(number: u16)
    ensures { IsTwoBytes number }
{}

// A Packet Identifier, if there is one, fits in two bytes; its type also allows 0.
fn identifier_facts(identifier: Option<u16>)
    ensures { IfSome identifier IsTwoBytes }
{
    if let Some(number) = identifier {
        number_facts(number);
    }
}

// If there is a Will, its properties are a valid list, and its topic is UTF-8.
fn will_facts(will: &Option<Will<'_>>)
    ensures { IfSome (option_map will_view will.now) IsWill }
{
    if let Some(will) = will {
        list_facts(&will.properties);
        text_facts(will.topic);
    }
}

// If there is a User Name, it is UTF-8.
fn user_name_facts(user_name: Option<&str>)
    ensures { IfSome (option_map (λ t. t.now) user_name.entry) IsUtf8 }
{
    if let Some(text) = user_name {
        text_facts(text);
    }
}

// What the types of a CONNECT's fields say of them; its binary data may be any bytes.
fn connect_facts(packet: &Connect<'_>)
    ensures { IsTyped (view (Packet.Connect packet.now)) }
{
    number_facts(packet.keep_alive);
    list_facts(&packet.properties);
    text_facts(packet.client_identifier);
    will_facts(&packet.will);
    user_name_facts(packet.user_name);
}

// The same for a PUBLISH, whose payload may be any bytes.
fn publish_facts(packet: &Publish<'_>)
    ensures { IsTyped (view (Packet.Publish packet.now)) }
{
    text_facts(packet.topic);
    identifier_facts(packet.identifier);
    list_facts(&packet.properties);
}

// The same for a PUBACK, PUBREC, PUBREL or PUBCOMP.
fn acknowledgement_facts(packet: &Acknowledgement<'_>)
    ensures { IsIdentified packet.now.identifier packet.now.properties }
{
    number_facts(packet.identifier);
    list_facts(&packet.properties);
}

// Each filter is UTF-8, and its Subscription Options, if it has any, are one byte. That follows
// from the contract of `have_options`.
#[tactic(auto, using(crate::proofs::RequestLaws::all_typed))]
fn filter_facts(filters: &Filters<'_>)
    ensures { AllByRecursion IsAskedFilter filters.now }
{
    let _options = filters.have_options();
}

// What the types of a SUBSCRIBE's or UNSUBSCRIBE's fields say of them.
fn request_facts(packet: &Request<'_>)
    ensures { IsRequest packet.now.identifier packet.now.properties packet.now.filters }
{
    number_facts(packet.identifier);
    list_facts(&packet.properties);
    filter_facts(&packet.filters);
}

// The same for a SUBACK or UNSUBACK, whose Reason Codes may be any bytes.
fn answer_facts(packet: &Answer<'_>)
    ensures { IsIdentified packet.now.identifier packet.now.properties }
{
    number_facts(packet.identifier);
    list_facts(&packet.properties);
}

/// What the types of the packet's fields say of it.
pub fn packet_facts(packet: &Packet<'_>)
    ensures { IsTyped (view packet.now) }
{
    match packet {
        Packet::Connect(packet) => connect_facts(packet),
        Packet::Connack(packet) => list_facts(&packet.properties),
        Packet::Publish(packet) => publish_facts(packet),
        Packet::Puback(packet)
        | Packet::Pubrec(packet)
        | Packet::Pubrel(packet)
        | Packet::Pubcomp(packet) => acknowledgement_facts(packet),
        Packet::Subscribe(packet) | Packet::Unsubscribe(packet) => request_facts(packet),
        Packet::Suback(packet) | Packet::Unsuback(packet) => answer_facts(packet),
        Packet::Pingreq | Packet::Pingresp => {}
        Packet::Disconnect(packet) | Packet::Auth(packet) => list_facts(&packet.properties),
    }
}
