//! C14 to C23: what CONNECT and CONNACK agreed on, DISCONNECT, and silence.
ghost use Rattle.std.specs.Prelude.{◌≡◌, ◌==◌, ◌&&◌, ◌||◌, not, is_some, refl, Some};
ghost use Rattle.std.specs.Option.{option_and_then};
ghost use Rattle.mq_rules.specs.declared.rule.Rule.TheVariants as rules;
ghost use Rattle.mq_rules.specs.Words.{is_some_and};
ghost use Rattle.mq_rules.specs.Notes.{note_in, is_close as closes, is_rest as rests, sent_packet as packet_of, sent_publish as publish_of, sent_connack as connack_of, sent_disconnect as disconnect_of, may_explain as may_be_explained};
ghost use Rattle.mq_rules.specs.Pasts as pasts;
ghost use Rattle.mq_connections.specs.Trying as trying;

use super::super::used_alias;
use super::super::verdicts::{has_left, may_look, size_limit, wants_no_problem_information};
use super::Tried;
use mq_log::Direction;
use mq_rules::{BareFields, ConnectionState, NoteRef, Role, Rule};

// Whether a PUBLISH is sent with a Topic Alias.
#[inline(always)]
#[tactic(auto, unfolding(mq_rules::specs::Notes::note_of_bare))]
fn sends_alias(event: NoteRef<'_>) -> bool
    ensures { result ≡ is_some (option_and_then (λ p. p.topic_alias) (publish_of (note_in event.entry))) }
{
    match event {
        NoteRef::Kept(note) => match note.sent_publish() {
            Some(publish) => publish.topic_alias.is_some(),
            None => false,
        },
        NoteRef::Bare(_) => false,
    }
}

// Whether a PUBLISH is sent whose Topic Alias stands for a Topic Name.
#[inline(always)]
#[tactic(auto, unfolding(mq_rules::specs::Notes::note_of_bare))]
fn uses_alias(event: NoteRef<'_>) -> bool
    ensures { result ≡ trying.tries_C16 (note_in event.entry) }
{
    match event {
        NoteRef::Kept(note) => match note.sent_publish() {
            Some(publish) => used_alias(publish).is_some(),
            None => false,
        },
        NoteRef::Bare(_) => false,
    }
}

// Whether a CONNACK is sent with Response Information.
#[inline(always)]
#[tactic(auto, unfolding(mq_rules::specs::Notes::note_of_bare))]
fn gives_response_information(event: NoteRef<'_>) -> bool
    ensures { result ≡ is_some_and (λ c. c.has_response_information) (connack_of (note_in event.entry)) }
{
    match event {
        NoteRef::Kept(note) => match note.sent_connack() {
            Some(connack) => connack.has_response_information,
            None => false,
        },
        NoteRef::Bare(_) => false,
    }
}

// Whether a DISCONNECT is sent.
#[inline(always)]
#[tactic(auto, unfolding(mq_rules::specs::Notes::note_of_bare))]
fn sends_disconnect(event: NoteRef<'_>) -> bool
    ensures { result ≡ is_some (disconnect_of (note_in event.entry)) }
{
    match event {
        NoteRef::Kept(note) => note.sent_disconnect().is_some(),
        NoteRef::Bare(_) => false,
    }
}

// Whether a DISCONNECT is sent with a Session Expiry Interval other than 0.
#[inline(always)]
#[tactic(auto, unfolding(mq_rules::specs::Notes::note_of_bare))]
fn sets_expiry(event: NoteRef<'_>) -> bool
    ensures { result ≡ is_some_and (λ d. is_some_and (λ seconds. not (seconds == 0)) d.session_expiry) (disconnect_of (note_in event.entry)) }
{
    match event {
        NoteRef::Kept(note) => match note.sent_disconnect() {
            Some(disconnect) => disconnect.session_expiry.unwrap_or(0) != 0,
            None => false,
        },
        NoteRef::Bare(_) => false,
    }
}

// Whether a packet is sent of which a client can ask that it explains nothing.
#[inline(always)]
#[tactic(auto, unfolding(mq_rules::specs::Notes::note_of_bare))]
fn may_be_silent(event: NoteRef<'_>) -> bool
    ensures { result ≡ is_some_and (λ p. not (may_be_explained p.fields)) (packet_of (note_in event.entry)) }
{
    match event {
        NoteRef::Kept(note) => match note.sent_packet() {
            Some(packet) => !packet.fields.may_explain(),
            None => false,
        },
        NoteRef::Bare(bare) => match bare.direction {
            Direction::Sent => !matches!(bare.fields, BareFields::Publish { .. }),
            Direction::Recv => false,
        },
    }
}

// Whether the end is at rest, or its connection closes.
#[inline(always)]
fn rests_or_closes(event: NoteRef<'_>) -> bool
    ensures { result ≡ (rests (note_in event.entry) || closes (note_in event.entry)) }
{
    event.is_rest() || event.is_close()
}

// Whether the CONNACK had a Maximum QoS.
fn has_maximum_qos(state: &ConnectionState) -> bool
    ensures { result ≡ is_some (option_and_then (λ a. a.maximum_qos) state.now.connack) }
{
    match state.connack {
        Some(connack) => connack.maximum_qos.is_some(),
        None => false,
    }
}

/// A packet to a peer that announced a Maximum Packet Size: C14.
#[derive(Drop)]
pub struct C14;

impl Tried for C14 {
    ghost rule = { rules.C14 };

    ghost test = { pasts.applies_C14 };

    ghost found = { trying.tries_C14 };

    fn rule() -> Rule {
        Rule::C14
    }

    #[inline(always)]
    fn is_tried(role: Role, state: &ConnectionState, event: NoteRef<'_>) -> bool {
        event.is_packet_sent() && size_limit(state, role).is_some()
    }

    ghost says = { λ role. refl };

    ghost tallied = { refl };

    ghost finds = { trying.C14_tried };
}

/// A PUBLISH with a Topic Alias: C15.
#[derive(Drop)]
pub struct C15;

impl Tried for C15 {
    ghost rule = { rules.C15 };

    ghost test = { pasts.applies_C15 };

    ghost found = { trying.tries_C15 };

    fn rule() -> Rule {
        Rule::C15
    }

    #[inline(always)]
    fn is_tried(role: Role, state: &ConnectionState, event: NoteRef<'_>) -> bool {
        may_look(state, role) && sends_alias(event)
    }

    ghost says = { λ role. refl };

    ghost tallied = { refl };

    ghost finds = { trying.C15_tried };
}

/// A PUBLISH whose Topic Alias stands for a Topic Name: C16.
#[derive(Drop)]
pub struct C16;

impl Tried for C16 {
    ghost rule = { rules.C16 };

    ghost test = { λ role. pasts.applies_C16 };

    ghost found = { λ role s n. trying.tries_C16 n };

    fn rule() -> Rule {
        Rule::C16
    }

    #[inline(always)]
    fn is_tried(_: Role, _: &ConnectionState, event: NoteRef<'_>) -> bool {
        uses_alias(event)
    }

    ghost says = { λ role. refl };

    ghost tallied = { refl };

    ghost finds = { trying.C16_tried };
}

/// A PUBLISH to a server that announced a Maximum QoS: C17.
#[derive(Drop)]
pub struct C17;

impl Tried for C17 {
    ghost rule = { rules.C17 };

    ghost test = { λ role. pasts.applies_C17 };

    ghost found = { trying.tries_C17 };

    fn rule() -> Rule {
        Rule::C17
    }

    #[inline(always)]
    fn is_tried(role: Role, state: &ConnectionState, event: NoteRef<'_>) -> bool {
        matches!(role, Role::Client) && (event.is_publish_sent() && has_maximum_qos(state))
    }

    ghost says = { λ role. refl };

    ghost tallied = { refl };

    ghost finds = { trying.C17_tried };
}

/// A PUBLISH: C18.
#[derive(Drop)]
pub struct C18;

impl Tried for C18 {
    ghost rule = { rules.C18 };

    ghost test = { λ role. pasts.applies_C18 };

    ghost found = { λ role s n. trying.tries_C18 role n };

    fn rule() -> Rule {
        Rule::C18
    }

    #[inline(always)]
    fn is_tried(role: Role, _: &ConnectionState, event: NoteRef<'_>) -> bool {
        matches!(role, Role::Client) && event.is_publish_sent()
    }

    ghost says = { λ role. refl };

    ghost tallied = { refl };

    ghost finds = { trying.C18_tried };
}

/// A DISCONNECT: C19.
#[derive(Drop)]
pub struct C19;

impl Tried for C19 {
    ghost rule = { rules.C19 };

    ghost test = { λ role. pasts.applies_C19 };

    ghost found = { λ role s n. trying.tries_C19 role n };

    fn rule() -> Rule {
        Rule::C19
    }

    #[inline(always)]
    fn is_tried(role: Role, _: &ConnectionState, event: NoteRef<'_>) -> bool {
        matches!(role, Role::Server) && sends_disconnect(event)
    }

    ghost says = { λ role. refl };

    ghost tallied = { refl };

    ghost finds = { trying.C19_tried };
}

/// A DISCONNECT with a Session Expiry Interval other than 0: C20.
#[derive(Drop)]
pub struct C20;

impl Tried for C20 {
    ghost rule = { rules.C20 };

    ghost test = { λ role. pasts.applies_C20 };

    ghost found = { λ role s n. trying.tries_C20 role n };

    fn rule() -> Rule {
        Rule::C20
    }

    #[inline(always)]
    fn is_tried(role: Role, _: &ConnectionState, event: NoteRef<'_>) -> bool {
        matches!(role, Role::Client) && sets_expiry(event)
    }

    ghost says = { λ role. refl };

    ghost tallied = { refl };

    ghost finds = { trying.C20_tried };
}

/// A packet to a client that asked for no explanations: C21.
#[derive(Drop)]
pub struct C21;

impl Tried for C21 {
    ghost rule = { rules.C21 };

    ghost test = { λ role. pasts.applies_C21 };

    ghost found = { trying.tries_C21 };

    fn rule() -> Rule {
        Rule::C21
    }

    #[inline(always)]
    fn is_tried(role: Role, state: &ConnectionState, event: NoteRef<'_>) -> bool {
        matches!(role, Role::Server)
            && (may_be_silent(event) && wants_no_problem_information(state))
    }

    ghost says = { λ role. refl };

    ghost tallied = { refl };

    ghost finds = { trying.C21_tried };
}

/// A CONNACK with Response Information: C22.
#[derive(Drop)]
pub struct C22;

impl Tried for C22 {
    ghost rule = { rules.C22 };

    ghost test = { λ role. pasts.applies_C22 };

    ghost found = { λ role s n. trying.tries_C22 role n };

    fn rule() -> Rule {
        Rule::C22
    }

    #[inline(always)]
    fn is_tried(role: Role, _: &ConnectionState, event: NoteRef<'_>) -> bool {
        matches!(role, Role::Server) && gives_response_information(event)
    }

    ghost says = { λ role. refl };

    ghost tallied = { refl };

    ghost finds = { trying.C22_tried };
}

/// A REST, or the CLOSE, after the last packet that may be sent: C23.
#[derive(Drop)]
pub struct C23;

impl Tried for C23 {
    ghost rule = { rules.C23 };

    ghost test = { pasts.applies_C23 };

    ghost found = { trying.tries_C23 };

    fn rule() -> Rule {
        Rule::C23
    }

    #[inline(always)]
    fn is_tried(role: Role, state: &ConnectionState, event: NoteRef<'_>) -> bool {
        rests_or_closes(event) && has_left(state, role)
    }

    ghost says = { λ role. refl };

    ghost tallied = { refl };

    ghost finds = { trying.C23_tried };
}
