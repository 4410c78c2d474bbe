//! Properties by their names.
#![tactic(auto, using(crate::proofs::OutgoingLaws::putting, crate::proofs::DetailLaws::detailing))]

ghost use Rattle.std.specs.Prelude.{◌≡◌, ◌++◌};
ghost use Rattle.mq_props.specs.Props.{prop_view};
ghost use Rattle.mq_display.specs.Detailing.{shown_words};
ghost use Rattle.mq_display.specs.Details.{with_prefix, properties_after, property_name, value_words};
ghost use Rattle.mq_display.specs.ItemText.{with_spaces};
ghost use Rattle.mq_display.specs.Outgoing.{Puts};

use super::super::outgoing::Outgoing;
use super::detail::{Detail, Shown, put_detail};
use mq_props::{Prop, Props};
use std::io::Write;

/// Appends properties in their order, with the prefix before each name that doesn't begin with it.
pub fn put_properties<W: Write>(out: &mut Outgoing<'_, W>, prefix: &str, properties: &Props<'_>)
    ensures { Puts W.contents out.old (with_spaces (properties_after prefix.now properties.now)) out.new }
{
    for prop in properties.iter() {
        let detail = property_detail(prop);
        put_detail(out, missing_prefix(prefix, detail.name), &detail);
    }
}

// The prefix, unless the name begins with it.
fn missing_prefix<'a>(prefix: &'a str, name: &str) -> &'a str
    ensures { result.now ++ name.now ≡ with_prefix prefix.entry.now name.now }
{
    if name.as_bytes().starts_with(prefix.as_bytes()) {
        ""
    } else {
        prefix
    }
}

// A property by its name (MQTT 5.0, section 2.2.2.2).
#[rattlefmt::skip]
fn property_detail(prop: Prop<'_>) -> Detail<'_>
    ensures name { result.name.now ≡ property_name (prop_view prop.entry).id }
    ensures value { shown_words result.value ≡ value_words (prop_view prop.entry).value }
{
    match prop {
        Prop::PayloadFormatIndicator(number) => Detail { name: "payload-format-indicator", value: Shown::Number(u64::from(number)) },
        Prop::MessageExpiryInterval(seconds) => Detail { name: "message-expiry-interval", value: Shown::Number(u64::from(seconds)) },
        Prop::ContentType(text) => Detail { name: "content-type", value: Shown::Text(text) },
        Prop::ResponseTopic(text) => Detail { name: "response-topic", value: Shown::Text(text) },
        Prop::CorrelationData(bytes) => Detail { name: "correlation-data", value: Shown::Size(bytes) },
        Prop::SubscriptionIdentifier(number) => Detail { name: "subscription-identifier", value: Shown::Number(u64::from(number)) },
        Prop::SessionExpiryInterval(seconds) => Detail { name: "session-expiry-interval", value: Shown::Number(u64::from(seconds)) },
        Prop::AssignedClientIdentifier(text) => Detail { name: "assigned-client-identifier", value: Shown::Text(text) },
        Prop::ServerKeepAlive(seconds) => Detail { name: "server-keep-alive", value: Shown::Number(u64::from(seconds)) },
        Prop::AuthenticationMethod(text) => Detail { name: "authentication-method", value: Shown::Text(text) },
        Prop::AuthenticationData(bytes) => Detail { name: "authentication-data", value: Shown::Size(bytes) },
        Prop::RequestProblemInformation(number) => Detail { name: "request-problem-information", value: Shown::Number(u64::from(number)) },
        Prop::WillDelayInterval(seconds) => Detail { name: "will-delay-interval", value: Shown::Number(u64::from(seconds)) },
        Prop::RequestResponseInformation(number) => Detail { name: "request-response-information", value: Shown::Number(u64::from(number)) },
        Prop::ResponseInformation(text) => Detail { name: "response-information", value: Shown::Text(text) },
        Prop::ServerReference(text) => Detail { name: "server-reference", value: Shown::Text(text) },
        Prop::ReasonString(text) => Detail { name: "reason-string", value: Shown::Text(text) },
        Prop::ReceiveMaximum(number) => Detail { name: "receive-maximum", value: Shown::Number(u64::from(number)) },
        Prop::TopicAliasMaximum(number) => Detail { name: "topic-alias-maximum", value: Shown::Number(u64::from(number)) },
        Prop::TopicAlias(number) => Detail { name: "topic-alias", value: Shown::Number(u64::from(number)) },
        Prop::MaximumQos(number) => Detail { name: "maximum-qos", value: Shown::Number(u64::from(number)) },
        Prop::RetainAvailable(number) => Detail { name: "retain-available", value: Shown::Number(u64::from(number)) },
        Prop::UserProperty(name, value) => Detail { name: "user-property", value: Shown::Pair(name, value) },
        Prop::MaximumPacketSize(number) => Detail { name: "maximum-packet-size", value: Shown::Number(u64::from(number)) },
        Prop::WildcardSubscriptionAvailable(number) => Detail { name: "wildcard-subscription-available", value: Shown::Number(u64::from(number)) },
        Prop::SubscriptionIdentifierAvailable(number) => Detail { name: "subscription-identifier-available", value: Shown::Number(u64::from(number)) },
        Prop::SharedSubscriptionAvailable(number) => Detail { name: "shared-subscription-available", value: Shown::Number(u64::from(number)) },
    }
}
