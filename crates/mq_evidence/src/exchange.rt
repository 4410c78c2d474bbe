//! Exchanges: what is received, the cause, asks for an answer, which is sent (MQTT 5.0, sections
//! 3.8.4, 3.10.4 and 4.3).
ghost use Rattle.std.specs.Prelude.{◌≡◌};
ghost use Rattle.mq_evidence.specs.Exchange.{exchange_of};

use mq_rules::Note;

/// An exchange: under which Packet Identifier an event is a cause, and under which one it is an
/// answer.
#[derive(Clone, Copy)]
pub enum Exchange {
    /// A PUBLISH of QoS 1 and its PUBACK.
    PublishPuback,
    /// A PUBLISH of QoS 2 and its PUBREC.
    PublishPubrec,
    /// A PUBREC below 0x80 and its PUBREL.
    PubrecPubrel,
    /// A PUBREL and its PUBCOMP.
    PubrelPubcomp,
    /// A SUBSCRIBE and its SUBACK.
    SubscribeSuback,
    /// An UNSUBSCRIBE and its UNSUBACK.
    UnsubscribeUnsuback,
}

impl Exchange {
    /// The Packet Identifier under which an event is a cause.
    pub fn cause(self, note: &Note) -> Option<u16>
        ensures { result ≡ (exchange_of self).cause note.now }
    {
        match self {
            Exchange::PublishPuback => note.received_at_least_once(),
            Exchange::PublishPubrec => note.received_exactly_once(),
            Exchange::PubrecPubrel => note.received_accepting_pubrec(),
            Exchange::PubrelPubcomp => note.received_pubrel(),
            Exchange::SubscribeSuback => note.received_subscribe(),
            Exchange::UnsubscribeUnsuback => note.received_unsubscribe(),
        }
    }

    /// The Packet Identifier under which an event is an answer.
    pub fn answer(self, note: &Note) -> Option<u16>
        ensures { result ≡ (exchange_of self).answer note.now }
    {
        match self {
            Exchange::PublishPuback => note.sent_puback(),
            Exchange::PublishPubrec => note.sent_pubrec(),
            Exchange::PubrecPubrel => note.sent_pubrel(),
            Exchange::PubrelPubcomp => note.sent_pubcomp(),
            Exchange::SubscribeSuback => note.sent_suback(),
            Exchange::UnsubscribeUnsuback => note.sent_unsuback(),
        }
    }
}
