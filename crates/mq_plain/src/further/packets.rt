//! V03, V04 and V06: what is sent in one packet, whatever came before it (MQTT 5.0, sections
//! 3.4.2.1, 3.5.2.1, 3.8.3.1, 3.14.2.1 and 4.8.2).
ghost use Rattle.std.specs.Prelude.{◌≡◌};
ghost use Rattle.mq_rules.specs.Words.{is_some_and};
ghost use Rattle.mq_rules.specs.Notes.{sent_disconnect as disconnect_of, sent_receipt_code as receipt_code_of};
ghost use Rattle.mq_rules.specs.FurtherPasts as pasts;

use crate::further::judging::PastStatement;
use mq_rules::{Note, Role, Rule, Seen};

/// The Reason Code No matching subscribers of a PUBACK or PUBREC (MQTT 5.0, sections 3.4.2.1 and
/// 3.5.2.1).
const NO_MATCH: u8 = 0x10;

/// The Reason Code Disconnect with Will Message of a DISCONNECT (MQTT 5.0, section 3.14.2.1).
const WITH_WILL: u8 = 0x04;

/// V03: a shared subscription has a name without wildcards, and a filter.
pub struct NamedShares;

impl PastStatement for NamedShares {
    ghost use Rattle.std.specs.Prelude.{refl};
    ghost use Rattle.mq_rules.specs.declared.rule.Rule.TheVariants.{V03};
    ghost use Rattle.mq_rules.specs.FurtherPasts.{breaks_V03};

    ghost judged = { V03 };

    ghost breaks = { λ role. breaks_V03 };

    fn rule() -> Rule {
        Rule::V03
    }

    #[tactic(auto, unfolding(mq_rules::specs::FurtherPasts::breaks_V03))]
    fn is_broken(_role: Role, event: &Seen, _before: &[Seen]) -> bool {
        match event.note.sent_wishes() {
            Some(wishes) => wishes.has_share && wishes.has_misnamed_share,
            None => false,
        }
    }

    ghost says = { λ role. refl };
}

/// V04: a shared subscription doesn't have No Local 1.
pub struct LocalShares;

impl PastStatement for LocalShares {
    ghost use Rattle.std.specs.Prelude.{refl};
    ghost use Rattle.mq_rules.specs.declared.rule.Rule.TheVariants.{V04};
    ghost use Rattle.mq_rules.specs.FurtherPasts.{breaks_V04};

    ghost judged = { V04 };

    ghost breaks = { λ role. breaks_V04 };

    fn rule() -> Rule {
        Rule::V04
    }

    #[tactic(auto, unfolding(mq_rules::specs::FurtherPasts::breaks_V04))]
    fn is_broken(_role: Role, event: &Seen, _before: &[Seen]) -> bool {
        match event.note.sent_wishes() {
            Some(wishes) => wishes.has_share && wishes.has_no_local_share,
            None => false,
        }
    }

    ghost says = { λ role. refl };
}

/// V06: no Reason Code is one that only the other end may send.
pub struct OwnCodes;

impl PastStatement for OwnCodes {
    ghost use Rattle.std.specs.Prelude.{refl};
    ghost use Rattle.mq_rules.specs.declared.rule.Rule.TheVariants.{V06};
    ghost use Rattle.mq_rules.specs.FurtherPasts.{breaks_V06};

    ghost judged = { V06 };

    ghost breaks = { breaks_V06 };

    fn rule() -> Rule {
        Rule::V06
    }

    #[tactic(auto, unfolding(mq_rules::specs::FurtherPasts::breaks_V06))]
    fn is_broken(role: Role, event: &Seen, _before: &[Seen]) -> bool {
        match role {
            Role::Client => disconnects_as_server(&event.note) || receives_as_server(&event.note),
            Role::Server => disconnects_as_client(&event.note),
        }
    }

    ghost says = { λ role. refl };
}

// Whether a DISCONNECT is sent with a Reason Code of servers.
fn disconnects_as_server(note: &Note) -> bool
    ensures { result ≡ is_some_and (λ d. pasts.is_code_of_servers d.code) (disconnect_of note.now) }
{
    match note.sent_disconnect() {
        Some(disconnect) => is_code_of_servers(disconnect.code),
        None => false,
    }
}

// Whether a DISCONNECT is sent with the Reason Code of clients.
fn disconnects_as_client(note: &Note) -> bool
    ensures { result ≡ is_some_and (λ d. pasts.is_code_of_clients d.code) (disconnect_of note.now) }
{
    match note.sent_disconnect() {
        Some(disconnect) => disconnect.code == WITH_WILL,
        None => false,
    }
}

// Whether a PUBACK or PUBREC is sent with the Reason Code of servers.
fn receives_as_server(note: &Note) -> bool
    ensures { result ≡ is_some_and pasts.is_receipt_of_servers (receipt_code_of note.now) }
{
    match note.sent_receipt_code() {
        Some(code) => code == NO_MATCH,
        None => false,
    }
}

// Whether only a server may send this Reason Code in a DISCONNECT.
fn is_code_of_servers(code: u8) -> bool
    ensures { result ≡ pasts.is_code_of_servers code }
{
    code == 0x87
        || code == 0x89
        || code == 0x8B
        || code == 0x8D
        || code == 0x8E
        || code == 0x8F
        || (code >= 0x9A && code <= 0xA2)
}
