//! Exchanges: what is received, the cause, asks for an answer, which is sent (MQTT 5.0, sections
//! 3.8.4, 3.10.4 and 4.3).

mod asking;
mod ordering;
mod pings;
mod settling;
mod slot;
mod unanswered;

pub use asking::Asked;
use mq_rules::{Note, Rule};
pub use ordering::Ordered;
pub use pings::AnsweredPings;
pub use settling::Settled;

/// An exchange: under which Packet Identifier an event is a cause, and under which one it is an
/// answer.
pub trait Exchange {
    ghost use Rattle.std.specs.Prelude.{◌≡◌, Bool};
    ghost use Rattle.mq_rules.specs.declared.role.Role.{Role};
    ghost use Rattle.mq_rules.specs.declared.rule.Rule.{Rule};
    ghost use Rattle.mq_rules.specs.Exchanges as exchanges;
    ghost use Rattle.mq_rules.specs.Statements.{statement, in_session, at_rest, if_early};
    ghost use Rattle.mq_plain.specs.Received.{IsReceived, IsSent};

    // The cause, and the answer.
    ghost exchange: { exchanges.Exchange };
    // The statement that each answer was asked for.
    ghost asked: { Rule };
    // The statement that each cause is answered before a REST.
    ghost settled: { Rule };
    // Whether an answer may be sent before the CONNACK, by an end that can't know yet which session
    // it will have.
    ghost early: { Bool };

    /// The Packet Identifier under which an event is a cause.
    fn cause(note: &Note) -> Option<u16>
        ensures { result ≡ exchange.cause note.now };

    /// The Packet Identifier under which an event is an answer.
    fn answer(note: &Note) -> Option<u16>
        ensures { result ≡ exchange.answer note.now };

    /// The statement that each answer was asked for.
    fn asked_rule() -> Rule
        ensures { result ≡ asked };

    /// Whether an answer may be sent before the CONNACK, by an end that can't know yet which
    /// session it will have (MQTT 5.0, section 3.1.4).
    fn may_be_early() -> bool
        ensures { result ≡ early };

    /// The statement that each cause is answered before a REST.
    fn settled_rule() -> Rule
        ensures { result ≡ settled };

    // A cause is received.
    ghost is_received: { IsReceived exchange.cause };

    // An answer is sent.
    ghost is_sent: { IsSent exchange.answer };

    // They are the statements of these rules.
    ghost says_asked: { (role : Role) → statement role asked ≡ in_session (if_early early role (exchanges.breaks_A exchange role)) };

    ghost says_settled: { (role : Role) → statement role settled ≡ at_rest (exchanges.shows_R exchange) };
}

/// An exchange whose answers are sent in the order of their causes (MQTT 5.0, section 4.6).
pub trait OrderedExchange: Exchange {
    ghost use Rattle.std.specs.Prelude.{◌≡◌};
    ghost use Rattle.mq_rules.specs.declared.role.Role.{Role};
    ghost use Rattle.mq_rules.specs.declared.rule.Rule.{Rule};
    ghost use Rattle.mq_rules.specs.Exchanges.{breaks_O};
    ghost use Rattle.mq_rules.specs.Statements.{statement, in_session};

    // The statement on the order.
    ghost ordered: { Rule };

    /// The statement on the order.
    fn ordered_rule() -> Rule
        ensures { result ≡ ordered };

    // It is the statement of this rule.
    ghost says_ordered: { (role : Role) → statement role ordered ≡ in_session (λ f. breaks_O Self.exchange) };
}

/// A PUBLISH of QoS 1 that is received, and its PUBACK.
pub struct PublishPuback;

impl Exchange for PublishPuback {
    ghost use Rattle.std.specs.Prelude.{refl, true};
    ghost use Rattle.mq_rules.specs.declared.rule.Rule.TheVariants.{E1A, E1R};
    ghost use Rattle.mq_rules.specs.Exchanges.{publish_puback};
    ghost use Rattle.mq_rules.specs.Notes.{puback_in};
    ghost use Rattle.mq_plain.specs.Received.{once_acknowledged-received, sent_as-sent};

    ghost exchange = { publish_puback };

    ghost asked = { E1A };

    ghost settled = { E1R };

    ghost early = { true };

    fn cause(note: &Note) -> Option<u16> {
        note.received_at_least_once()
    }

    fn answer(note: &Note) -> Option<u16> {
        note.sent_puback()
    }

    fn asked_rule() -> Rule {
        Rule::E1A
    }

    fn may_be_early() -> bool {
        true
    }

    fn settled_rule() -> Rule {
        Rule::E1R
    }

    ghost is_received = { once_acknowledged-received };

    ghost is_sent = { sent_as-sent puback_in };

    ghost says_asked = { λ role. refl };

    ghost says_settled = { λ role. refl };
}

impl OrderedExchange for PublishPuback {
    ghost use Rattle.std.specs.Prelude.{refl};
    ghost use Rattle.mq_rules.specs.declared.rule.Rule.TheVariants.{E1O};

    ghost ordered = { E1O };

    fn ordered_rule() -> Rule {
        Rule::E1O
    }

    ghost says_ordered = { λ role. refl };
}

/// A PUBLISH of QoS 2 that is received, and its PUBREC.
pub struct PublishPubrec;

impl Exchange for PublishPubrec {
    ghost use Rattle.std.specs.Prelude.{refl, true};
    ghost use Rattle.mq_rules.specs.declared.rule.Rule.TheVariants.{E2A, E2R};
    ghost use Rattle.mq_rules.specs.Exchanges.{publish_pubrec};
    ghost use Rattle.mq_rules.specs.Notes.{pubrec_in};
    ghost use Rattle.mq_plain.specs.Received.{exactly_once-received, sent_as-sent};

    ghost exchange = { publish_pubrec };

    ghost asked = { E2A };

    ghost settled = { E2R };

    ghost early = { true };

    fn cause(note: &Note) -> Option<u16> {
        note.received_exactly_once()
    }

    fn answer(note: &Note) -> Option<u16> {
        note.sent_pubrec()
    }

    fn asked_rule() -> Rule {
        Rule::E2A
    }

    fn may_be_early() -> bool {
        true
    }

    fn settled_rule() -> Rule {
        Rule::E2R
    }

    ghost is_received = { exactly_once-received };

    ghost is_sent = { sent_as-sent pubrec_in };

    ghost says_asked = { λ role. refl };

    ghost says_settled = { λ role. refl };
}

impl OrderedExchange for PublishPubrec {
    ghost use Rattle.std.specs.Prelude.{refl};
    ghost use Rattle.mq_rules.specs.declared.rule.Rule.TheVariants.{E2O};

    ghost ordered = { E2O };

    fn ordered_rule() -> Rule {
        Rule::E2O
    }

    ghost says_ordered = { λ role. refl };
}

/// A PUBREC below 0x80 that is received, and its PUBREL.
pub struct PubrecPubrel;

impl Exchange for PubrecPubrel {
    ghost use Rattle.std.specs.Prelude.{refl, true};
    ghost use Rattle.mq_rules.specs.declared.rule.Rule.TheVariants.{E3A, E3R};
    ghost use Rattle.mq_rules.specs.Exchanges.{pubrec_pubrel};
    ghost use Rattle.mq_rules.specs.Notes.{accepting_pubrec_in, pubrel_in};
    ghost use Rattle.mq_plain.specs.Received.{received_as-received, sent_as-sent};

    ghost exchange = { pubrec_pubrel };

    ghost asked = { E3A };

    ghost settled = { E3R };

    ghost early = { true };

    fn cause(note: &Note) -> Option<u16> {
        note.received_accepting_pubrec()
    }

    fn answer(note: &Note) -> Option<u16> {
        note.sent_pubrel()
    }

    fn asked_rule() -> Rule {
        Rule::E3A
    }

    fn may_be_early() -> bool {
        true
    }

    fn settled_rule() -> Rule {
        Rule::E3R
    }

    ghost is_received = { received_as-received accepting_pubrec_in };

    ghost is_sent = { sent_as-sent pubrel_in };

    ghost says_asked = { λ role. refl };

    ghost says_settled = { λ role. refl };
}

impl OrderedExchange for PubrecPubrel {
    ghost use Rattle.std.specs.Prelude.{refl};
    ghost use Rattle.mq_rules.specs.declared.rule.Rule.TheVariants.{E3O};

    ghost ordered = { E3O };

    fn ordered_rule() -> Rule {
        Rule::E3O
    }

    ghost says_ordered = { λ role. refl };
}

/// A PUBREL that is received, and its PUBCOMP.
pub struct PubrelPubcomp;

impl Exchange for PubrelPubcomp {
    ghost use Rattle.std.specs.Prelude.{refl, false};
    ghost use Rattle.mq_rules.specs.declared.rule.Rule.TheVariants.{E4A, E4R};
    ghost use Rattle.mq_rules.specs.Exchanges.{pubrel_pubcomp};
    ghost use Rattle.mq_rules.specs.Notes.{pubrel_in, pubcomp_in};
    ghost use Rattle.mq_plain.specs.Received.{received_as-received, sent_as-sent};

    ghost exchange = { pubrel_pubcomp };

    ghost asked = { E4A };

    ghost settled = { E4R };

    ghost early = { false };

    fn cause(note: &Note) -> Option<u16> {
        note.received_pubrel()
    }

    fn answer(note: &Note) -> Option<u16> {
        note.sent_pubcomp()
    }

    fn asked_rule() -> Rule {
        Rule::E4A
    }

    fn may_be_early() -> bool {
        false
    }

    fn settled_rule() -> Rule {
        Rule::E4R
    }

    ghost is_received = { received_as-received pubrel_in };

    ghost is_sent = { sent_as-sent pubcomp_in };

    ghost says_asked = { λ role. refl };

    ghost says_settled = { λ role. refl };
}

/// A SUBSCRIBE that is received, and its SUBACK.
pub struct SubscribeSuback;

impl Exchange for SubscribeSuback {
    ghost use Rattle.std.specs.Prelude.{refl, false};
    ghost use Rattle.mq_rules.specs.declared.rule.Rule.TheVariants.{E5A, E5R};
    ghost use Rattle.mq_rules.specs.Exchanges.{subscribe_suback};
    ghost use Rattle.mq_rules.specs.Notes.{subscribe_in, suback_in};
    ghost use Rattle.mq_plain.specs.Received.{received_as-received, sent_as-sent};

    ghost exchange = { subscribe_suback };

    ghost asked = { E5A };

    ghost settled = { E5R };

    ghost early = { false };

    fn cause(note: &Note) -> Option<u16> {
        note.received_subscribe()
    }

    fn answer(note: &Note) -> Option<u16> {
        note.sent_suback()
    }

    fn asked_rule() -> Rule {
        Rule::E5A
    }

    fn may_be_early() -> bool {
        false
    }

    fn settled_rule() -> Rule {
        Rule::E5R
    }

    ghost is_received = { received_as-received subscribe_in };

    ghost is_sent = { sent_as-sent suback_in };

    ghost says_asked = { λ role. refl };

    ghost says_settled = { λ role. refl };
}

/// An UNSUBSCRIBE that is received, and its UNSUBACK.
pub struct UnsubscribeUnsuback;

impl Exchange for UnsubscribeUnsuback {
    ghost use Rattle.std.specs.Prelude.{refl, false};
    ghost use Rattle.mq_rules.specs.declared.rule.Rule.TheVariants.{E6A, E6R};
    ghost use Rattle.mq_rules.specs.Exchanges.{unsubscribe_unsuback};
    ghost use Rattle.mq_rules.specs.Notes.{unsubscribe_in, unsuback_in};
    ghost use Rattle.mq_plain.specs.Received.{received_as-received, sent_as-sent};

    ghost exchange = { unsubscribe_unsuback };

    ghost asked = { E6A };

    ghost settled = { E6R };

    ghost early = { false };

    fn cause(note: &Note) -> Option<u16> {
        note.received_unsubscribe()
    }

    fn answer(note: &Note) -> Option<u16> {
        note.sent_unsuback()
    }

    fn asked_rule() -> Rule {
        Rule::E6A
    }

    fn may_be_early() -> bool {
        false
    }

    fn settled_rule() -> Rule {
        Rule::E6R
    }

    ghost is_received = { received_as-received unsubscribe_in };

    ghost is_sent = { sent_as-sent unsuback_in };

    ghost says_asked = { λ role. refl };

    ghost says_settled = { λ role. refl };
}
