//! Exchanges: what is received, the cause, asks for an answer, which is sent (MQTT 5.0, sections
//! 3.8.4, 3.10.4 and 4.3).

use mq_rules::{Noted, Rule};

/// An exchange: under which Packet Identifier an event is a cause, and under which one it is an
/// answer.
pub trait Exchange {
    ghost use Rattle.std.specs.Prelude.{◌≡◌, Bool, Option, Some};
    ghost use Rattle.mq_rules.specs.declared.role.Role.{Role};
    ghost use Rattle.mq_rules.specs.declared.rule.Rule.{Rule};
    ghost use Rattle.mq_rules.specs.Exchanges as exchanges;
    ghost use Rattle.mq_rules.specs.Statements.{statement, in_session, at_rest, if_early};
    ghost use Rattle.mq_rules.specs.Occasions.{occasion};
    ghost use Rattle.mq_exchanges.specs.Answering.{IsApart};

    // The cause, and the answer.
    ghost exchange: { exchanges.Exchange };
    // The statement that each answer was asked for.
    ghost asked: { Rule };
    // The statement that each cause is answered before a REST.
    ghost settled: { Rule };
    // The statement on the order of answers, if there is one.
    ghost ordered: { Option Rule };
    // Whether an answer may be sent before the CONNACK, by an end that can't know yet which session
    // it will have.
    ghost early: { Bool };

    /// The Packet Identifier under which an event is a cause.
    fn cause<E: Noted>(event: &E) -> Option<u16>
        ensures { result ≡ exchange.cause (E.note event.now) };

    /// The Packet Identifier under which an event is an answer.
    fn answer<E: Noted>(event: &E) -> Option<u16>
        ensures { result ≡ exchange.answer (E.note event.now) };

    /// The statement that each answer was asked for.
    fn asked_rule() -> Rule
        ensures { result ≡ asked };

    /// Whether an answer may be sent before the CONNACK, by an end that can't know yet which
    /// session it will have (MQTT 5.0, section 3.1.4).
    fn may_be_early() -> bool
        ensures { result ≡ early };

    /// The statement that each cause is answered before a REST.
    fn settled_rule() -> Rule
        ensures { result ≡ settled };

    /// The statement that answers are sent in the order of their causes, if there is one (MQTT 5.0,
    /// section 4.6).
    fn ordered_rule() -> Option<Rule>
        ensures { result ≡ ordered };

    // A cause is received, and an answer is sent.
    ghost apart: { IsApart exchange };

    // They are the statements of these rules, and their occasions.
    ghost says_asked: { (role : Role) → statement role asked ≡ in_session (if_early early role (exchanges.breaks_A exchange role)) };

    ghost tries_asked: { (role : Role) → occasion role asked ≡ Some (in_session (if_early early role (λ f. exchanges.applies_A exchange))) };

    ghost tries_settled: { (role : Role) → occasion role settled ≡ Some (at_rest (exchanges.applies_R exchange)) };

    ghost tries_ordered: { (role : Role) (rule : Rule) → ordered ≡ Some rule → occasion role rule ≡ Some (in_session (λ f. exchanges.applies_O exchange)) };

    ghost says_settled: { (role : Role) → statement role settled ≡ at_rest (exchanges.shows_R exchange) };

    ghost says_ordered: { (role : Role) (rule : Rule) → ordered ≡ Some rule → statement role rule ≡ in_session (λ f. exchanges.breaks_O exchange) };
}

/// A PUBLISH of QoS 1 that is received, and its PUBACK.
#[derive(Drop)]
pub struct E1;

impl Exchange for E1 {
    ghost use Rattle.std.specs.Prelude.{refl, Some, None, true};
    ghost use Rattle.mq_rules.specs.declared.rule.Rule.TheVariants.{E1A, E1R, E1O};
    ghost use Rattle.mq_rules.specs.Exchanges.{publish_puback};
    ghost use Rattle.mq_exchanges.specs.Answering.{puback_apart, ordered_says, ordered_tries};

    ghost exchange = { publish_puback };

    ghost asked = { E1A };

    ghost early = { true };

    ghost settled = { E1R };

    ghost ordered = { Some E1O };

    #[inline(always)]
    fn cause<E: Noted>(event: &E) -> Option<u16> {
        event.received_at_least_once()
    }

    #[inline(always)]
    fn answer<E: Noted>(event: &E) -> Option<u16> {
        event.sent_puback()
    }

    fn asked_rule() -> Rule {
        Rule::E1A
    }

    fn may_be_early() -> bool {
        true
    }

    fn settled_rule() -> Rule {
        Rule::E1R
    }

    fn ordered_rule() -> Option<Rule> {
        Some(Rule::E1O)
    }

    ghost apart = { puback_apart };

    ghost says_asked = { λ role. refl };

    ghost tries_asked = { λ role. refl };

    ghost says_settled = { λ role. refl };

    ghost says_ordered = { ordered_says publish_puback E1O (λ role. refl) };

    ghost tries_settled = { λ role. refl };

    ghost tries_ordered = { ordered_tries publish_puback E1O (λ role. refl) };
}

/// A PUBLISH of QoS 2 that is received, and its PUBREC.
#[derive(Drop)]
pub struct E2;

impl Exchange for E2 {
    ghost use Rattle.std.specs.Prelude.{refl, Some, None, true};
    ghost use Rattle.mq_rules.specs.declared.rule.Rule.TheVariants.{E2A, E2R, E2O};
    ghost use Rattle.mq_rules.specs.Exchanges.{publish_pubrec};
    ghost use Rattle.mq_exchanges.specs.Answering.{pubrec_apart, ordered_says, ordered_tries};

    ghost exchange = { publish_pubrec };

    ghost asked = { E2A };

    ghost early = { true };

    ghost settled = { E2R };

    ghost ordered = { Some E2O };

    #[inline(always)]
    fn cause<E: Noted>(event: &E) -> Option<u16> {
        event.received_exactly_once()
    }

    #[inline(always)]
    fn answer<E: Noted>(event: &E) -> Option<u16> {
        event.sent_pubrec()
    }

    fn asked_rule() -> Rule {
        Rule::E2A
    }

    fn may_be_early() -> bool {
        true
    }

    fn settled_rule() -> Rule {
        Rule::E2R
    }

    fn ordered_rule() -> Option<Rule> {
        Some(Rule::E2O)
    }

    ghost apart = { pubrec_apart };

    ghost says_asked = { λ role. refl };

    ghost tries_asked = { λ role. refl };

    ghost says_settled = { λ role. refl };

    ghost says_ordered = { ordered_says publish_pubrec E2O (λ role. refl) };

    ghost tries_settled = { λ role. refl };

    ghost tries_ordered = { ordered_tries publish_pubrec E2O (λ role. refl) };
}

/// A PUBREC below 0x80 that is received, and its PUBREL.
#[derive(Drop)]
pub struct E3;

impl Exchange for E3 {
    ghost use Rattle.std.specs.Prelude.{refl, Some, None, true};
    ghost use Rattle.mq_rules.specs.declared.rule.Rule.TheVariants.{E3A, E3R, E3O};
    ghost use Rattle.mq_rules.specs.Exchanges.{pubrec_pubrel};
    ghost use Rattle.mq_rules.specs.Notes.{accepting_pubrec_in, pubrel_in};
    ghost use Rattle.mq_exchanges.specs.Answering.{packets_apart, ordered_says, ordered_tries, pubrel_session};

    ghost exchange = { pubrec_pubrel };

    ghost asked = { E3A };

    ghost early = { true };

    ghost settled = { E3R };

    ghost ordered = { Some E3O };

    #[inline(always)]
    fn cause<E: Noted>(event: &E) -> Option<u16> {
        event.received_accepting_pubrec()
    }

    #[inline(always)]
    fn answer<E: Noted>(event: &E) -> Option<u16> {
        event.sent_pubrel()
    }

    fn asked_rule() -> Rule {
        Rule::E3A
    }

    fn may_be_early() -> bool {
        true
    }

    fn settled_rule() -> Rule {
        Rule::E3R
    }

    fn ordered_rule() -> Option<Rule> {
        Some(Rule::E3O)
    }

    ghost apart = { packets_apart accepting_pubrec_in pubrel_in pubrel_session };

    ghost says_asked = { λ role. refl };

    ghost tries_asked = { λ role. refl };

    ghost says_settled = { λ role. refl };

    ghost says_ordered = { ordered_says pubrec_pubrel E3O (λ role. refl) };

    ghost tries_settled = { λ role. refl };

    ghost tries_ordered = { ordered_tries pubrec_pubrel E3O (λ role. refl) };
}

/// A PUBREL that is received, and its PUBCOMP.
#[derive(Drop)]
pub struct E4;

impl Exchange for E4 {
    ghost use Rattle.std.specs.Prelude.{refl, Some, None, false};
    ghost use Rattle.mq_rules.specs.declared.rule.Rule.TheVariants.{E4A, E4R};
    ghost use Rattle.mq_rules.specs.Exchanges.{pubrel_pubcomp};
    ghost use Rattle.mq_rules.specs.Notes.{pubrel_in, pubcomp_in};
    ghost use Rattle.mq_exchanges.specs.Answering.{packets_apart, no_order, no_tries, pubcomp_session};

    ghost exchange = { pubrel_pubcomp };

    ghost asked = { E4A };

    ghost early = { false };

    ghost settled = { E4R };

    ghost ordered = { None };

    #[inline(always)]
    fn cause<E: Noted>(event: &E) -> Option<u16> {
        event.received_pubrel()
    }

    #[inline(always)]
    fn answer<E: Noted>(event: &E) -> Option<u16> {
        event.sent_pubcomp()
    }

    fn asked_rule() -> Rule {
        Rule::E4A
    }

    fn may_be_early() -> bool {
        false
    }

    fn settled_rule() -> Rule {
        Rule::E4R
    }

    fn ordered_rule() -> Option<Rule> {
        None
    }

    ghost apart = { packets_apart pubrel_in pubcomp_in pubcomp_session };

    ghost says_asked = { λ role. refl };

    ghost tries_asked = { λ role. refl };

    ghost says_settled = { λ role. refl };

    ghost says_ordered = { no_order pubrel_pubcomp };

    ghost tries_settled = { λ role. refl };

    ghost tries_ordered = { no_tries pubrel_pubcomp };
}

/// A SUBSCRIBE that is received, and its SUBACK.
#[derive(Drop)]
pub struct E5;

impl Exchange for E5 {
    ghost use Rattle.std.specs.Prelude.{refl, Some, None, false};
    ghost use Rattle.mq_rules.specs.declared.rule.Rule.TheVariants.{E5A, E5R};
    ghost use Rattle.mq_rules.specs.Exchanges.{subscribe_suback};
    ghost use Rattle.mq_rules.specs.Notes.{subscribe_in, suback_in};
    ghost use Rattle.mq_exchanges.specs.Answering.{packets_apart, no_order, no_tries, suback_session};

    ghost exchange = { subscribe_suback };

    ghost asked = { E5A };

    ghost early = { false };

    ghost settled = { E5R };

    ghost ordered = { None };

    #[inline(always)]
    fn cause<E: Noted>(event: &E) -> Option<u16> {
        event.received_subscribe()
    }

    #[inline(always)]
    fn answer<E: Noted>(event: &E) -> Option<u16> {
        event.sent_suback()
    }

    fn asked_rule() -> Rule {
        Rule::E5A
    }

    fn may_be_early() -> bool {
        false
    }

    fn settled_rule() -> Rule {
        Rule::E5R
    }

    fn ordered_rule() -> Option<Rule> {
        None
    }

    ghost apart = { packets_apart subscribe_in suback_in suback_session };

    ghost says_asked = { λ role. refl };

    ghost tries_asked = { λ role. refl };

    ghost says_settled = { λ role. refl };

    ghost says_ordered = { no_order subscribe_suback };

    ghost tries_settled = { λ role. refl };

    ghost tries_ordered = { no_tries subscribe_suback };
}

/// An UNSUBSCRIBE that is received, and its UNSUBACK.
#[derive(Drop)]
pub struct E6;

impl Exchange for E6 {
    ghost use Rattle.std.specs.Prelude.{refl, Some, None, false};
    ghost use Rattle.mq_rules.specs.declared.rule.Rule.TheVariants.{E6A, E6R};
    ghost use Rattle.mq_rules.specs.Exchanges.{unsubscribe_unsuback};
    ghost use Rattle.mq_rules.specs.Notes.{unsubscribe_in, unsuback_in};
    ghost use Rattle.mq_exchanges.specs.Answering.{packets_apart, no_order, no_tries, unsuback_session};

    ghost exchange = { unsubscribe_unsuback };

    ghost asked = { E6A };

    ghost early = { false };

    ghost settled = { E6R };

    ghost ordered = { None };

    #[inline(always)]
    fn cause<E: Noted>(event: &E) -> Option<u16> {
        event.received_unsubscribe()
    }

    #[inline(always)]
    fn answer<E: Noted>(event: &E) -> Option<u16> {
        event.sent_unsuback()
    }

    fn asked_rule() -> Rule {
        Rule::E6A
    }

    fn may_be_early() -> bool {
        false
    }

    fn settled_rule() -> Rule {
        Rule::E6R
    }

    fn ordered_rule() -> Option<Rule> {
        None
    }

    ghost apart = { packets_apart unsubscribe_in unsuback_in unsuback_session };

    ghost says_asked = { λ role. refl };

    ghost tries_asked = { λ role. refl };

    ghost says_settled = { λ role. refl };

    ghost says_ordered = { no_order unsubscribe_unsuback };

    ghost tries_settled = { λ role. refl };

    ghost tries_ordered = { no_tries unsubscribe_unsuback };
}
