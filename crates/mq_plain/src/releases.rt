//! Releases of QoS 2 messages for onward delivery (MQTT 5.0, section 4.3.3).
ghost use Rattle.std.specs.Prelude.{◌≡◌, ◌&&◌, not, reverse};
ghost use Rattle.mq_rules.specs.Words.{is_some_and};
ghost use Rattle.mq_rules.specs.Notes.{received_publish};
ghost use Rattle.mq_rules.specs.Moments.{newest, note};
ghost use Rattle.mq_rules.specs.Releases.{breaks_L1, breaks_L2, breaks_L3};
ghost use Rattle.mq_plain.specs.Lookback.{is_brought_after, is_released_after, first_brought_after, lapses_after};
ghost use Rattle.mq_plain.specs.Finding.{moment_of};

use crate::earliest::{Found, earliest_in_session, still_applies};
use crate::judging::SessionStatement;
use crate::lookback::NoteTest;
use crate::releasing::ReleaseStatement;
use crate::session::{is_placed, since_in_session, where_placed};
use mq_rules::{Fate, Memory, Note, Role, Rule, Seen};
use std::alloc::Global;

/// A QoS 2 PUBLISH that is received under an identifier.
#[derive(Drop)]
struct Brings(u16);

impl NoteTest for Brings {
    ghost use Rattle.mq_rules.specs.Words.{is_id};
    ghost use Rattle.mq_rules.specs.Notes.{received_exactly_once};

    ghost test = { λ t n. is_id t.0 (received_exactly_once n) };

    fn passes(&self, note: &Note) -> bool {
        note.received_exactly_once() == Some(self.0)
    }
}

/// A release of the message that was received under an identifier.
#[derive(Drop)]
struct Releases(u16);

impl NoteTest for Releases {
    ghost use Rattle.mq_rules.specs.Words.{is_id};
    ghost use Rattle.mq_rules.specs.Notes.{released_id};

    ghost test = { λ t n. is_id t.0 (released_id n) };

    fn passes(&self, note: &Note) -> bool {
        note.released_identifier() == Some(self.0)
    }
}

/// What ends the exchange of the PUBLISH that was received under an identifier: a PUBCOMP, or a
/// PUBREC that refuses it.
#[derive(Drop)]
struct EndsExchange(u16);

impl NoteTest for EndsExchange {
    ghost use Rattle.mq_rules.specs.Words.{is_id};
    ghost use Rattle.mq_rules.specs.Notes.{sent_as, ended_in};

    ghost test = { λ t n. is_id t.0 (sent_as ended_in n) };

    fn passes(&self, note: &Note) -> bool {
        note.ender() == Some(self.0)
    }
}

/// A PUBREC of 0x10, No matching subscribers, that is sent under an identifier (MQTT 5.0, section
/// 3.5.2.1).
#[derive(Drop)]
struct FindsNoSubscriber(u16);

impl NoteTest for FindsNoSubscriber {
    ghost use Rattle.mq_rules.specs.Words.{is_id};
    ghost use Rattle.mq_rules.specs.Notes.{sent_as, unmatched_pubrec_in};

    ghost test = { λ t n. is_id t.0 (sent_as unmatched_pubrec_in n) };

    fn passes(&self, note: &Note) -> bool {
        note.sent_unmatched_pubrec() == Some(self.0)
    }
}

// Whether a QoS 2 PUBLISH under an identifier was received in the session, and nothing has ended
// its exchange since.
fn is_brought(role: Role, fate: Fate, identifier: u16, before: &[Seen]) -> bool
    ensures { result ≡ is_brought_after role fate identifier (reverse before.now) }
{
    since_in_session(
        role,
        Some(fate),
        &Brings(identifier),
        &EndsExchange(identifier),
        before,
    )
}

// Whether the message under an identifier was released in the session, and nothing has ended its
// exchange since.
fn is_released(role: Role, fate: Fate, identifier: u16, before: &[Seen]) -> bool
    ensures { result ≡ is_released_after role fate identifier (reverse before.now) }
{
    since_in_session(
        role,
        Some(fate),
        &Releases(identifier),
        &EndsExchange(identifier),
        before,
    )
}

// Whether an event releases a message that wasn't received.
#[tactic(auto, unfolding(mq_rules::specs::Releases::breaks_L1))]
fn releases_nothing(role: Role, fate: Fate, event: &Seen, before: &[Seen]) -> bool
    ensures { result ≡ breaks_L1 role fate (newest event.now (reverse before.now)) }
{
    match event.note.released_identifier() {
        Some(identifier) => !is_brought(role, fate, identifier, before),
        None => false,
    }
}

// Whether an event releases a message that was released before.
#[tactic(auto, unfolding(mq_rules::specs::Releases::breaks_L2))]
fn releases_again(role: Role, fate: Fate, event: &Seen, before: &[Seen]) -> bool
    ensures { result ≡ breaks_L2 role fate (newest event.now (reverse before.now)) }
{
    match event.note.released_identifier() {
        Some(identifier) => is_released(role, fate, identifier, before),
        None => false,
    }
}

// Whether an event completes an exchange with success, though the release of its message is due.
#[tactic(auto, unfolding(mq_rules::specs::Releases::breaks_L3))]
fn completes_unreleased(role: Role, fate: Fate, event: &Seen, before: &[Seen]) -> bool
    ensures { result ≡ breaks_L3 role fate (newest event.now (reverse before.now)) }
{
    match event.note.sent_success_pubcomp() {
        Some(identifier) => is_release_due(role, fate, identifier, before),
        None => false,
    }
}

// Whether the release of the message under an identifier is due: its PUBLISH was received, it needs
// a release, and it wasn't released.
fn is_release_due(role: Role, fate: Fate, identifier: u16, before: &[Seen]) -> bool
    ensures { result ≡ is_some_and (λ first. not (is_released_after role fate identifier (reverse before.now)) && not (lapses_after role fate identifier (reverse before.now) first)) (first_brought_after role fate identifier (reverse before.now)) }
{
    match earliest_in_session(
        role,
        Some(fate),
        &Brings(identifier),
        &EndsExchange(identifier),
        before,
    ) {
        Some(first) => {
            !is_released(role, fate, identifier, before)
                && !may_lapse(role, fate, identifier, first, before)
        }
        None => false,
    }
}

// Whether the message of this PUBLISH needs no release: it may expire, or a PUBREC of 0x10 was sent
// since.
fn may_lapse(role: Role, fate: Fate, identifier: u16, first: Found<'_>, before: &[Seen]) -> bool
    ensures { result ≡ lapses_after role fate identifier (reverse before.now) (moment_of first.entry) }
{
    if may_expire(&first.event.note) {
        return true;
    }
    !still_applies(
        role,
        Some(fate),
        first,
        &FindsNoSubscriber(identifier),
        before,
    )
}

// Whether it is a PUBLISH with a Message Expiry Interval (MQTT 5.0, section 3.3.2.3.3).
fn may_expire(note: &Note) -> bool
    ensures { result ≡ is_some_and (λ p. p.has_message_expiry) (received_publish note.now) }
{
    match note.received_publish() {
        Some(publish) => publish.has_message_expiry,
        None => false,
    }
}

/// L1: a message is released only if its QoS 2 PUBLISH was received.
pub struct ReceivedReleases;

impl ReleaseStatement for ReceivedReleases {
    ghost use Rattle.std.specs.Prelude.{refl};
    ghost use Rattle.mq_rules.specs.declared.rule.Rule.TheVariants.{L1};
    ghost use Rattle.mq_rules.specs.Releases.{breaks_L1};
    ghost use Rattle.mq_rules.specs.Statements.{where_placed};

    ghost judged = { L1 };

    ghost breaks = { λ role. where_placed role (breaks_L1 role) };

    fn rule() -> Rule {
        Rule::L1
    }

    fn is_broken(role: Role, fate: Fate, event: &Seen, before: &[Seen]) -> bool {
        where_placed(
            releases_nothing(role, fate, event, before),
            is_placed(role, fate, before),
        )
    }

    ghost says = { λ role. refl };
}

/// L2: a message is released at most once.
pub struct SingleReleases;

impl ReleaseStatement for SingleReleases {
    ghost use Rattle.std.specs.Prelude.{refl};
    ghost use Rattle.mq_rules.specs.declared.rule.Rule.TheVariants.{L2};
    ghost use Rattle.mq_rules.specs.Releases.{breaks_L2};
    ghost use Rattle.mq_rules.specs.Statements.{where_placed};

    ghost judged = { L2 };

    ghost breaks = { λ role. where_placed role (breaks_L2 role) };

    fn rule() -> Rule {
        Rule::L2
    }

    fn is_broken(role: Role, fate: Fate, event: &Seen, before: &[Seen]) -> bool {
        where_placed(
            releases_again(role, fate, event, before),
            is_placed(role, fate, before),
        )
    }

    ghost says = { λ role. refl };
}

/// L3: a message that needs a release is released before its exchange is completed with success.
pub struct ReleasedCompletions;

impl SessionStatement for ReleasedCompletions {
    ghost use Rattle.std.specs.Prelude.{refl};
    ghost use Rattle.mq_rules.specs.declared.rule.Rule.TheVariants.{L3};
    ghost use Rattle.mq_rules.specs.Releases.{breaks_L3};

    ghost judged = { L3 };

    ghost breaks = { breaks_L3 };

    fn rule() -> Rule {
        Rule::L3
    }

    fn is_broken(
        _alloc: Global,
        role: Role,
        fate: Fate,
        event: &Seen,
        before: &[Seen],
    ) -> Result<bool, Memory> {
        Ok(completes_unreleased(role, fate, event, before))
    }

    ghost says = { λ role. refl };
}
