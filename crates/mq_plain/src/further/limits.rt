//! F01 to F06: what a server says in its CONNACK that it hasn't got (MQTT 5.0, section 3.2.2.3).
ghost use Rattle.std.specs.Prelude.{◌≡◌, ◌&&◌, ◌==◌, not, nat_lt, reverse};
ghost use Rattle.mq_rules.specs.declared.role.Role.TheVariants.{Client as TheClient, Server as TheServer};
ghost use Rattle.mq_rules.specs.Words.{is_some_and, is_id};
ghost use Rattle.mq_rules.specs.Notes.{sent_connack as connack_of, sent_publish as publish_of, qos_number as number_of};
ghost use Rattle.mq_rules.specs.Connections.{connection, first_connack, first_connect};
ghost use Rattle.mq_rules.specs.FurtherPasts as pasts;

use crate::further::judging::PastStatement;
use crate::handshake::handshake_of;
use mq_rules::{Note, Role, Rule, Seen, WillNote, qos_number};

/// F01: what is sent for the first time isn't to be retained, where the server retains nothing.
pub struct RetainedNothing;

impl PastStatement for RetainedNothing {
    ghost use Rattle.std.specs.Prelude.{refl};
    ghost use Rattle.mq_rules.specs.declared.rule.Rule.TheVariants.{F01};
    ghost use Rattle.mq_rules.specs.FurtherPasts.{breaks_F01};

    ghost judged = { F01 };

    ghost breaks = { λ role. breaks_F01 };

    fn rule() -> Rule {
        Rule::F01
    }

    #[tactic(auto, unfolding(mq_rules::specs::FurtherPasts::breaks_F01))]
    fn is_broken(_role: Role, event: &Seen, before: &[Seen]) -> bool {
        retains_anew(&event.note) && lacks_retain(before)
    }

    ghost says = { λ role. refl };
}

/// F02: a SUBSCRIBE has no wildcard, where the server takes none.
pub struct NoWildcards;

impl PastStatement for NoWildcards {
    ghost use Rattle.std.specs.Prelude.{refl};
    ghost use Rattle.mq_rules.specs.declared.rule.Rule.TheVariants.{F02};
    ghost use Rattle.mq_rules.specs.FurtherPasts.{breaks_F02};

    ghost judged = { F02 };

    ghost breaks = { λ role. breaks_F02 };

    fn rule() -> Rule {
        Rule::F02
    }

    #[tactic(auto, unfolding(mq_rules::specs::FurtherPasts::breaks_F02))]
    fn is_broken(_role: Role, event: &Seen, before: &[Seen]) -> bool {
        match event.note.sent_wishes() {
            Some(wishes) => wishes.has_wildcard && lacks_wildcards(before),
            None => false,
        }
    }

    ghost says = { λ role. refl };
}

/// F03: a SUBSCRIBE has no Subscription Identifier, where the server takes none.
pub struct NoIdentifiers;

impl PastStatement for NoIdentifiers {
    ghost use Rattle.std.specs.Prelude.{refl};
    ghost use Rattle.mq_rules.specs.declared.rule.Rule.TheVariants.{F03};
    ghost use Rattle.mq_rules.specs.FurtherPasts.{breaks_F03};

    ghost judged = { F03 };

    ghost breaks = { λ role. breaks_F03 };

    fn rule() -> Rule {
        Rule::F03
    }

    #[tactic(auto, unfolding(mq_rules::specs::FurtherPasts::breaks_F03))]
    fn is_broken(_role: Role, event: &Seen, before: &[Seen]) -> bool {
        match event.note.sent_wishes() {
            Some(wishes) => {
                wishes.subscription_identifier.is_some() && lacks_identifiers(before)
            }
            None => false,
        }
    }

    ghost says = { λ role. refl };
}

/// F04: a SUBSCRIBE asks for no shared subscription, where the server has none.
pub struct NoShares;

impl PastStatement for NoShares {
    ghost use Rattle.std.specs.Prelude.{refl};
    ghost use Rattle.mq_rules.specs.declared.rule.Rule.TheVariants.{F04};
    ghost use Rattle.mq_rules.specs.FurtherPasts.{breaks_F04};

    ghost judged = { F04 };

    ghost breaks = { λ role. breaks_F04 };

    fn rule() -> Rule {
        Rule::F04
    }

    #[tactic(auto, unfolding(mq_rules::specs::FurtherPasts::breaks_F04))]
    fn is_broken(_role: Role, event: &Seen, before: &[Seen]) -> bool {
        match event.note.sent_wishes() {
            Some(wishes) => wishes.has_share && lacks_shares(before),
            None => false,
        }
    }

    ghost says = { λ role. refl };
}

/// F05: a CONNACK that accepts the connection announces no Maximum QoS below the Will QoS.
pub struct WillQos;

impl PastStatement for WillQos {
    ghost use Rattle.std.specs.Prelude.{refl};
    ghost use Rattle.mq_rules.specs.declared.rule.Rule.TheVariants.{F05};
    ghost use Rattle.mq_rules.specs.FurtherPasts.{breaks_F05};

    ghost judged = { F05 };

    ghost breaks = { λ role. breaks_F05 };

    fn rule() -> Rule {
        Rule::F05
    }

    #[tactic(auto, unfolding(mq_rules::specs::FurtherPasts::breaks_F05))]
    fn is_broken(_role: Role, event: &Seen, before: &[Seen]) -> bool {
        match event.note.sent_connack() {
            Some(connack) => connack.code == 0 && exceeds(will_of(before), connack.maximum_qos),
            None => false,
        }
    }

    ghost says = { λ role. refl };
}

/// F06: a CONNACK that accepts a Will to be retained doesn't announce Retain Available 0.
pub struct WillRetain;

impl PastStatement for WillRetain {
    ghost use Rattle.std.specs.Prelude.{refl};
    ghost use Rattle.mq_rules.specs.declared.rule.Rule.TheVariants.{F06};
    ghost use Rattle.mq_rules.specs.FurtherPasts.{breaks_F06};

    ghost judged = { F06 };

    ghost breaks = { λ role. breaks_F06 };

    fn rule() -> Rule {
        Rule::F06
    }

    #[tactic(auto, unfolding(mq_rules::specs::FurtherPasts::breaks_F06))]
    fn is_broken(_role: Role, event: &Seen, before: &[Seen]) -> bool {
        accepts_without_retain(&event.note) && is_to_be_retained(will_of(before))
    }

    ghost says = { λ role. refl };
}

// Whether a PUBLISH with DUP 0 and RETAIN 1 is sent.
fn retains_anew(note: &Note) -> bool
    ensures { result ≡ is_some_and (λ p. not p.duplicate && p.retain) (publish_of note.now) }
{
    match note.sent_publish() {
        Some(publish) => !publish.duplicate && publish.retain,
        None => false,
    }
}

// Whether a CONNACK is sent that accepts the connection with Retain Available 0.
fn accepts_without_retain(note: &Note) -> bool
    ensures { result ≡ is_some_and (λ c. (c.code == 0) && is_id 0 c.retain_available) (connack_of note.now) }
{
    match note.sent_connack() {
        Some(connack) => connack.code == 0 && connack.retain_available == Some(0),
        None => false,
    }
}

// Whether the server said on the latest connection that it keeps no retained messages.
fn lacks_retain(before: &[Seen]) -> bool
    ensures { result ≡ pasts.lacks_retain (first_connack TheClient (connection (reverse before.now))) }
{
    match handshake_of(Role::Client, before).connack {
        Some(connack) => connack.retain_available == Some(0),
        None => false,
    }
}

// Whether it said there that it takes no wildcards.
fn lacks_wildcards(before: &[Seen]) -> bool
    ensures { result ≡ pasts.lacks_wildcards (first_connack TheClient (connection (reverse before.now))) }
{
    match handshake_of(Role::Client, before).connack {
        Some(connack) => connack.wildcard_subscription_available == Some(0),
        None => false,
    }
}

// Whether it said there that it takes no Subscription Identifiers.
fn lacks_identifiers(before: &[Seen]) -> bool
    ensures { result ≡ pasts.lacks_identifiers (first_connack TheClient (connection (reverse before.now))) }
{
    match handshake_of(Role::Client, before).connack {
        Some(connack) => connack.subscription_identifier_available == Some(0),
        None => false,
    }
}

// Whether it said there that it takes no shared subscriptions.
fn lacks_shares(before: &[Seen]) -> bool
    ensures { result ≡ pasts.lacks_shares (first_connack TheClient (connection (reverse before.now))) }
{
    match handshake_of(Role::Client, before).connack {
        Some(connack) => connack.shared_subscription_available == Some(0),
        None => false,
    }
}

// The Will of the CONNECT that a server received on the latest connection, if it has one.
fn will_of(before: &[Seen]) -> Option<WillNote>
    ensures { result ≡ pasts.will_in (first_connect TheServer (connection (reverse before.now))) }
{
    handshake_of(Role::Server, before)
        .connect
        .and_then(|connect| connect.will)
}

// Whether there is a Will, and its QoS is above this maximum.
fn exceeds(will: Option<WillNote>, maximum_qos: Option<u8>) -> bool
    ensures { result ≡ is_some_and (λ w. is_some_and (λ most. nat_lt most (number_of w.qos)) maximum_qos) will }
{
    match (will, maximum_qos) {
        (Some(will), Some(most)) => most < qos_number(will.qos),
        _ => false,
    }
}

// Whether there is a Will, and it is to be retained.
fn is_to_be_retained(will: Option<WillNote>) -> bool
    ensures { result ≡ is_some_and (λ w. w.retain) will }
{
    match will {
        Some(will) => will.retain,
        None => false,
    }
}
