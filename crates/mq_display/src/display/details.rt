//! What `show --long` prints of an event after its line's usual words: the fields and properties of
//! its packet, by name, or the bytes of one that breaks a rule, or that a CLOSE leaves unfinished.
#![tactic(auto, using(crate::proofs::OutgoingLaws::putting, crate::proofs::DetailLaws::detailing))]

ghost use Rattle.std.specs.Prelude.{ℕ, List, ◌++◌};
ghost use Rattle.std.specs.List.{flat_map};
ghost use Rattle.std.specs.Option.{option_map};
ghost use Rattle.mq_packet.specs.declared.packet.Packet.TheVariants as packets;
ghost use Rattle.mq_packet.specs.Elements.{filter_view};
ghost use Rattle.mq_packet.specs.Reading.{view, connect_view, publish_view, will_view};
ghost use Rattle.mq_display.specs.Details.{detail_text, broken_detail_text, broken_details, item_details, packet_words, connect_words, publish_words, will_words, user_words, password_words, property_words, filter_words, option_words, code_words};
ghost use Rattle.mq_display.specs.ItemText.{with_spaces};
ghost use Rattle.mq_display.specs.Outgoing.{Puts};
ghost use Rattle.mq_log.specs.Reception.{event_of, item_of};

mod broken;
mod detail;
mod laws;
mod marking;
mod property;
mod quoting;
mod unfinished;

use super::outgoing::Outgoing;
pub use broken::put_broken;
use detail::{Detail, Shown, put_all, put_detail};
use mq_log::{Event, Item};
use mq_packet::{Answer, Codes, Connack, Connect, Filter, Filters, Packet, Publish, Request, Will};
use mq_props::Props;
use mq_rules::qos_number;
use property::put_properties;
use std::io::Write;
use unfinished::put_unfinished;

/// Appends what `--long` prints of an event after its line's usual words, each word with a space
/// before it: the fields and the properties of a packet, the type and the bytes of one that breaks
/// a rule, those of a packet that a CLOSE leaves unfinished, and nothing for any other event.
pub fn put_details<W: Write>(out: &mut Outgoing<'_, W>, event: &Event<'_>)
    ensures { Puts W.contents out.old (detail_text (event_of event.now)) out.new }
{
    match event {
        Event::Sent(item) | Event::Recv(item) => put_item_details(out, item),
        Event::Close { unfinished } => put_unfinished(out, unfinished),
        Event::Open | Event::Rest | Event::Release(_) => {}
    }
}

// Appends the details of what was sent or received.
fn put_item_details<W: Write>(out: &mut Outgoing<'_, W>, item: &Item<'_>)
    ensures { Puts W.contents out.old (with_spaces (item_details (item_of item.now))) out.new }
{
    match item {
        Item::Packet(packet) => put_packet_details(out, packet),
        Item::Bad { bytes, rule, at } => put_broken(out, bytes, *rule, *at),
        Item::Lost => {}
    }
}

/// Appends only the type and the bytes of a packet that breaks a rule, or that a CLOSE leaves
/// unfinished, in the same way, and nothing for any other event.
pub fn put_broken_details<W: Write>(out: &mut Outgoing<'_, W>, event: &Event<'_>)
    ensures { Puts W.contents out.old (broken_detail_text (event_of event.now)) out.new }
{
    match event {
        Event::Sent(item) | Event::Recv(item) => put_broken_item(out, item),
        Event::Close { unfinished } => put_unfinished(out, unfinished),
        Event::Open | Event::Rest | Event::Release(_) => {}
    }
}

// Appends the type and the bytes of what was sent or received, if it breaks a rule.
fn put_broken_item<W: Write>(out: &mut Outgoing<'_, W>, item: &Item<'_>)
    ensures { Puts W.contents out.old (with_spaces (broken_details (item_of item.now))) out.new }
{
    match item {
        Item::Bad { bytes, rule, at } => put_broken(out, bytes, *rule, *at),
        Item::Packet(_) | Item::Lost => {}
    }
}

/// Appends the details of a packet.
pub fn put_packet_details<W: Write>(out: &mut Outgoing<'_, W>, packet: &Packet<'_>)
    ensures { Puts W.contents out.old (with_spaces (packet_words (view packet.now))) out.new }
{
    match packet {
        Packet::Connect(connect) => put_connect(out, connect),
        Packet::Connack(connack) => put_connack(out, connack),
        Packet::Publish(publish) => put_publish(out, publish),
        Packet::Puback(acknowledgement)
        | Packet::Pubrec(acknowledgement)
        | Packet::Pubrel(acknowledgement)
        | Packet::Pubcomp(acknowledgement) => {
            put_reason(out, acknowledgement.code, &acknowledgement.properties)
        }
        Packet::Subscribe(request) | Packet::Unsubscribe(request) => put_request(out, request),
        Packet::Suback(answer) | Packet::Unsuback(answer) => put_answer(out, answer),
        Packet::Pingreq | Packet::Pingresp => {}
        Packet::Disconnect(ending) | Packet::Auth(ending) => {
            put_reason(out, ending.code, &ending.properties)
        }
    }
}

// Appends the details of a CONNECT (MQTT 5.0, section 3.1).
fn put_connect<W: Write>(out: &mut Outgoing<'_, W>, connect: &Connect<'_>)
    ensures { Puts W.contents out.old (with_spaces (connect_words (connect_view connect.now))) out.new }
{
    put_all(
        out,
        &[
            Detail {
                name: "client",
                value: Shown::Text(connect.client_identifier),
            },
            Detail {
                name: "clean-start",
                value: Shown::Flag(connect.clean_start),
            },
            Detail {
                name: "keep-alive",
                value: Shown::Number(u64::from(connect.keep_alive)),
            },
        ],
    );
    put_properties(out, "", &connect.properties);
    put_will(out, &connect.will);
    put_user_name(out, connect.user_name);
    put_password(out, connect.password);
}

// Appends the details of a Will, if there is one (MQTT 5.0, section 3.1.2.5).
fn put_will<W: Write>(out: &mut Outgoing<'_, W>, will: &Option<Will<'_>>)
    ensures { Puts W.contents out.old (with_spaces (will_words (option_map will_view will.now))) out.new }
{
    match will {
        Some(will) => {
            put_all(
                out,
                &[
                    Detail {
                        name: "will-topic",
                        value: Shown::Text(will.topic),
                    },
                    Detail {
                        name: "will-payload",
                        value: Shown::Size(will.payload),
                    },
                    Detail {
                        name: "will-qos",
                        value: Shown::Number(u64::from(qos_number(will.qos))),
                    },
                    Detail {
                        name: "will-retain",
                        value: Shown::Flag(will.retain),
                    },
                ],
            );
            put_properties(out, "will-", &will.properties);
        }
        None => {}
    }
}

// Appends a User Name, if there is one (MQTT 5.0, section 3.1.3.5).
fn put_user_name<W: Write>(out: &mut Outgoing<'_, W>, user_name: Option<&str>)
    ensures { Puts W.contents out.old (with_spaces (user_words (option_map (λ text. text.now) user_name.entry))) out.new }
{
    match user_name {
        Some(user_name) => put_detail(
            out,
            "",
            &Detail {
                name: "user",
                value: Shown::Text(user_name),
            },
        ),
        None => {}
    }
}

// Appends a Password's length, if there is one (MQTT 5.0, section 3.1.3.6).
fn put_password<W: Write>(out: &mut Outgoing<'_, W>, password: Option<&[u8]>)
    ensures { Puts W.contents out.old (with_spaces (password_words (option_map (λ bytes. bytes.now) password.entry))) out.new }
{
    match password {
        Some(password) => put_detail(
            out,
            "",
            &Detail {
                name: "password",
                value: Shown::Size(password),
            },
        ),
        None => {}
    }
}

// Appends the details of a CONNACK (MQTT 5.0, section 3.2).
fn put_connack<W: Write>(out: &mut Outgoing<'_, W>, connack: &Connack<'_>)
    ensures { Puts W.contents out.old (with_spaces (packet_words (view (packets.Connack connack.now)))) out.new }
{
    put_all(
        out,
        &[
            Detail {
                name: "code",
                value: Shown::Code(connack.code),
            },
            Detail {
                name: "session-present",
                value: Shown::Flag(connack.session_present),
            },
        ],
    );
    put_properties(out, "", &connack.properties);
}

// Appends the details of a PUBLISH (MQTT 5.0, section 3.3).
fn put_publish<W: Write>(out: &mut Outgoing<'_, W>, publish: &Publish<'_>)
    ensures { Puts W.contents out.old (with_spaces (publish_words (publish_view publish.now))) out.new }
{
    put_all(
        out,
        &[
            Detail {
                name: "retain",
                value: Shown::Flag(publish.retain),
            },
            Detail {
                name: "topic",
                value: Shown::Text(publish.topic),
            },
            Detail {
                name: "payload",
                value: Shown::Size(publish.payload),
            },
        ],
    );
    put_properties(out, "", &publish.properties);
}

// Appends a Reason Code and properties (MQTT 5.0, sections 3.4 to 3.7, 3.14 and 3.15).
fn put_reason<W: Write>(out: &mut Outgoing<'_, W>, code: u8, properties: &Props<'_>)
    ensures { Puts W.contents out.old (with_spaces (code_words code ++ property_words properties.now)) out.new }
{
    put_code(out, code);
    put_properties(out, "", properties);
}

// Appends the details of a SUBSCRIBE or UNSUBSCRIBE (MQTT 5.0, sections 3.8 and 3.10).
fn put_request<W: Write>(out: &mut Outgoing<'_, W>, request: &Request<'_>)
    ensures { Puts W.contents out.old (with_spaces (property_words request.now.properties ++ flat_map filter_words request.now.filters)) out.new }
{
    put_properties(out, "", &request.properties);
    put_filters(out, &request.filters);
}

// Appends filters, in their order.
fn put_filters<W: Write>(out: &mut Outgoing<'_, W>, filters: &Filters<'_>)
    ensures { Puts W.contents out.old (with_spaces (flat_map filter_words filters.now)) out.new }
{
    for filter in filters.iter() {
        put_filter(out, filter);
    }
}

// Appends a filter, and its Subscription Options if it has them (MQTT 5.0, section 3.8.3.1).
fn put_filter<W: Write>(out: &mut Outgoing<'_, W>, filter: Filter<'_>)
    ensures { Puts W.contents out.old (with_spaces (filter_words (filter_view filter.entry))) out.new }
{
    put_detail(
        out,
        "",
        &Detail {
            name: "filter",
            value: Shown::Text(filter.filter),
        },
    );
    put_options(out, filter.options);
}

// Appends Subscription Options, if there are any.
fn put_options<W: Write>(out: &mut Outgoing<'_, W>, options: Option<u8>)
    ensures { Puts W.contents out.old (with_spaces (option_words options)) out.new }
{
    match options {
        Some(options) => put_all(
            out,
            &[
                Detail {
                    name: "qos",
                    value: Shown::Number(u64::from(options % 4)),
                },
                Detail {
                    name: "no-local",
                    value: Shown::Number(u64::from(options / 4 % 2)),
                },
                Detail {
                    name: "retain-as-published",
                    value: Shown::Number(u64::from(options / 8 % 2)),
                },
                Detail {
                    name: "retain-handling",
                    value: Shown::Number(u64::from(options / 16 % 4)),
                },
            ],
        ),
        None => {}
    }
}

// Appends the details of a SUBACK or UNSUBACK (MQTT 5.0, sections 3.9 and 3.11).
fn put_answer<W: Write>(out: &mut Outgoing<'_, W>, answer: &Answer<'_>)
    ensures { Puts W.contents out.old (with_spaces (property_words answer.now.properties ++ flat_map code_words answer.now.codes)) out.new }
{
    put_properties(out, "", &answer.properties);
    put_codes(out, &answer.codes);
}

// Appends Reason Codes, in their order.
fn put_codes<W: Write>(out: &mut Outgoing<'_, W>, codes: &Codes<'_>)
    ensures { Puts W.contents out.old (with_spaces (flat_map code_words codes.now)) out.new }
{
    let bytes = codes.as_bytes();
    for code in bytes {
        put_code(out, *code);
    }
}

// Appends a Reason Code (MQTT 5.0, section 2.4).
fn put_code<W: Write>(out: &mut Outgoing<'_, W>, code: u8)
    ensures { Puts W.contents out.old (with_spaces (code_words code)) out.new }
{
    put_detail(
        out,
        "",
        &Detail {
            name: "code",
            value: Shown::Code(code),
        },
    );
}
