//! Which of C01 to C23 an event puts to the test, by what is kept of its connection: one type for
//! each statement.
ghost use Rattle.std.specs.Prelude.{◌≡◌, ◌==◌, ◌&&◌, ◌||◌, not, Bool, true, is_some, refl, Some};
ghost use Rattle.mq_rules.specs.declared.role.Role.{Role as TheRole};
ghost use Rattle.mq_rules.specs.declared.rule.Rule.{Rule as TheRule};
ghost use Rattle.mq_rules.specs.declared.rule.Rule.TheVariants as rules;
ghost use Rattle.mq_rules.specs.declared.note.Note.{Note as TheNote};
ghost use Rattle.mq_rules.specs.declared.connection_state.ConnectionState.{ConnectionState as TheState};
ghost use Rattle.mq_rules.specs.Words.{is_some_and};
ghost use Rattle.mq_rules.specs.Notes.{note_in, is_close as closes, sent_packet as packet_of, sent_connack as connack_of, resumed_by};
ghost use Rattle.mq_rules.specs.Moments.{Moment};
ghost use Rattle.mq_rules.specs.Pasts as pasts;
ghost use Rattle.mq_rules.specs.Statements.{on_past};
ghost use Rattle.mq_rules.specs.Occasions.{occasion};
ghost use Rattle.mq_connections.specs.Trying as trying;
ghost use Rattle.mq_connections.specs.Trying.{Tries, is_tallied};

mod agreed;

use super::verdicts::{has_clean_start, is_not_to_be_resumed, is_resumed, is_unnamed};
pub use agreed::{C14, C15, C16, C17, C18, C19, C20, C21, C22, C23};
use mq_packet::PacketType;
use mq_rules::{ConnectionState, ItemNote, Note, NoteRef, Role, Rule};

/// A statement on the past of a connection.
pub trait Tried {
    /// The statement.
    ghost rule: { TheRule };
    /// Where it is put to the test.
    ghost test: { TheRole → Moment → Bool };
    /// The events that do, at an end that it binds.
    ghost found: { TheRole → TheState → TheNote → Bool };

    /// The statement.
    fn rule() -> Rule
        ensures { result ≡ rule };

    /// Whether it binds an end of this role, and an event puts it to the test after what is kept.
    fn is_tried(role: Role, state: &ConnectionState, event: NoteRef<'_>) -> bool
        ensures { result ≡ found role state.now (note_in event.entry) };

    /// The table of occasions says so.
    ghost says: { (role : TheRole) → occasion role rule ≡ Some (on_past (test role)) };
    /// It is one of C01 to C23.
    ghost tallied: { is_tallied rule ≡ true };
    /// What is kept decides it.
    ghost finds: { Tries rule test found };
}

// Whether something of a type but 0 is sent. Any packet has a type from 1 to 15.
#[inline(always)]
#[tactic(auto, unfolding(mq_rules::specs::Notes::note_of_bare), using(crate::proofs::TallyLaws::has_type))]
fn sends_any_type(event: NoteRef<'_>) -> bool
    ensures { result ≡ trying.tries_C01 (note_in event.entry) }
{
    match event {
        NoteRef::Kept(note) => is_any_type_sent(note),
        NoteRef::Bare(bare) => bare.is_sent(),
    }
}

// The same of a note.
#[tactic(auto, using(crate::proofs::TallyLaws::has_type))]
fn is_any_type_sent(note: &Note) -> bool
    ensures { result ≡ trying.tries_C01 note.now }
{
    match note {
        Note::Sent(ItemNote::Packet(_)) => true,
        Note::Sent(ItemNote::Bad { first, .. }) => *first / 16 != 0,
        _ => false,
    }
}

// Whether a packet is sent, or bytes that break a rule; or the connection closes.
#[inline(always)]
fn sends_or_closes(event: NoteRef<'_>) -> bool
    ensures { result ≡ (trying.sends_some (note_in event.entry) || closes (note_in event.entry)) }
{
    event.is_typed_sent() || event.is_close()
}

// Whether a packet is sent, or the connection closes.
#[inline(always)]
fn sends_packet_or_closes(event: NoteRef<'_>) -> bool
    ensures { result ≡ (is_some (packet_of (note_in event.entry)) || closes (note_in event.entry)) }
{
    event.is_packet_sent() || event.is_close()
}

// Whether a CONNACK is sent.
#[inline(always)]
#[tactic(auto, unfolding(mq_rules::specs::Notes::note_of_bare))]
fn sends_connack(event: NoteRef<'_>) -> bool
    ensures { result ≡ is_some (connack_of (note_in event.entry)) }
{
    match event {
        NoteRef::Kept(note) => note.sent_connack().is_some(),
        NoteRef::Bare(_) => false,
    }
}

// Whether a CONNACK is sent that accepts.
#[inline(always)]
#[tactic(auto, unfolding(mq_rules::specs::Notes::note_of_bare))]
fn accepts(event: NoteRef<'_>) -> bool
    ensures { result ≡ pasts.accepts_so (note_in event.entry) }
{
    match event {
        NoteRef::Kept(note) => match note.sent_connack() {
            Some(connack) => connack.code == 0,
            None => false,
        },
        NoteRef::Bare(_) => false,
    }
}

// Whether a CONNACK is sent with Session Present 1.
#[inline(always)]
#[tactic(auto, unfolding(mq_rules::specs::Notes::note_of_bare))]
fn says_session_present(event: NoteRef<'_>) -> bool
    ensures { result ≡ pasts.says_session_present (note_in event.entry) }
{
    match event {
        NoteRef::Kept(note) => match note.sent_connack() {
            Some(connack) => connack.session_present,
            None => false,
        },
        NoteRef::Bare(_) => false,
    }
}

// Whether the CONNECT had Clean Start 0.
fn has_no_clean_start(state: &ConnectionState) -> bool
    ensures { result ≡ is_some_and (λ c. not c.clean_start) state.now.connect }
{
    match state.connect {
        Some(connect) => !connect.clean_start,
        None => false,
    }
}

// Whether a CONNACK that accepts says that a session is there, or could say so of one that
// isn't.
fn may_be_wrong(state: &ConnectionState, event: NoteRef<'_>) -> bool
    ensures { result ≡ (pasts.says_session_present (note_in event.entry) || (is_some_and (λ c. not c.clean_start) state.now.connect && not state.now.was_alive)) }
{
    says_session_present(event) || (has_no_clean_start(state) && !state.was_alive)
}

// Whether a session was resumed that wasn't there.
fn is_resumed_for_nothing(state: &ConnectionState) -> bool
    ensures { result ≡ (is_some_and resumed_by state.now.connack && trying.has_no_session state.now) }
{
    is_resumed(state) && is_not_to_be_resumed(state)
}

/// Whatever is sent: C01.
#[derive(Drop)]
pub struct C01;

impl Tried for C01 {
    ghost rule = { rules.C01 };

    ghost test = { λ role. pasts.applies_C01 };

    ghost found = { λ role s n. trying.tries_C01 n };

    fn rule() -> Rule {
        Rule::C01
    }

    #[inline(always)]
    fn is_tried(_: Role, _: &ConnectionState, event: NoteRef<'_>) -> bool {
        sends_any_type(event)
    }

    ghost says = { λ role. refl };

    ghost tallied = { refl };

    ghost finds = { trying.C01_tried };
}

/// The first thing that a client sends: C02.
#[derive(Drop)]
pub struct C02;

impl Tried for C02 {
    ghost rule = { rules.C02 };

    ghost test = { λ role. pasts.applies_C02 };

    ghost found = { trying.tries_C02 };

    fn rule() -> Rule {
        Rule::C02
    }

    #[inline(always)]
    fn is_tried(role: Role, state: &ConnectionState, event: NoteRef<'_>) -> bool {
        matches!(role, Role::Client) && (event.is_typed_sent() && !state.has_sent)
    }

    ghost says = { λ role. refl };

    ghost tallied = { refl };

    ghost finds = { trying.C02_tried };
}

/// A CONNECT: C03.
#[derive(Drop)]
pub struct C03;

impl Tried for C03 {
    ghost rule = { rules.C03 };

    ghost test = { λ role. pasts.applies_C03 };

    ghost found = { λ role s n. trying.tries_C03 role n };

    fn rule() -> Rule {
        Rule::C03
    }

    #[inline(always)]
    fn is_tried(role: Role, _: &ConnectionState, event: NoteRef<'_>) -> bool {
        matches!(role, Role::Client) && event.sends_type(PacketType::Connect)
    }

    ghost says = { λ role. refl };

    ghost tallied = { refl };

    ghost finds = { trying.C03_tried };
}

/// A CONNACK: C04.
#[derive(Drop)]
pub struct C04;

impl Tried for C04 {
    ghost rule = { rules.C04 };

    ghost test = { λ role. pasts.applies_C04 };

    ghost found = { λ role s n. trying.tries_C04 role n };

    fn rule() -> Rule {
        Rule::C04
    }

    #[inline(always)]
    fn is_tried(role: Role, _: &ConnectionState, event: NoteRef<'_>) -> bool {
        matches!(role, Role::Server) && event.sends_type(PacketType::Connack)
    }

    ghost says = { λ role. refl };

    ghost tallied = { refl };

    ghost finds = { trying.C04_tried };
}

/// What a server sends up to its CONNACK: C05.
#[derive(Drop)]
pub struct C05;

impl Tried for C05 {
    ghost rule = { rules.C05 };

    ghost test = { λ role. pasts.applies_C05 };

    ghost found = { trying.tries_C05 };

    fn rule() -> Rule {
        Rule::C05
    }

    #[inline(always)]
    fn is_tried(role: Role, state: &ConnectionState, event: NoteRef<'_>) -> bool {
        matches!(role, Role::Server)
            && (event.is_typed_sent()
                && (!event.sends_type(PacketType::Auth) && !state.has_sent_connack))
    }

    ghost says = { λ role. refl };

    ghost tallied = { refl };

    ghost finds = { trying.C05_tried };
}

/// A CONNACK: C06.
#[derive(Drop)]
pub struct C06;

impl Tried for C06 {
    ghost rule = { rules.C06 };

    ghost test = { λ role. pasts.applies_C06 };

    ghost found = { λ role s n. trying.tries_C04 role n };

    fn rule() -> Rule {
        Rule::C06
    }

    #[inline(always)]
    fn is_tried(role: Role, _: &ConnectionState, event: NoteRef<'_>) -> bool {
        matches!(role, Role::Server) && event.sends_type(PacketType::Connack)
    }

    ghost says = { λ role. refl };

    ghost tallied = { refl };

    ghost finds = { trying.C06_tried };
}

/// A CONNACK that answers Clean Start 1: C07.
#[derive(Drop)]
pub struct C07;

impl Tried for C07 {
    ghost rule = { rules.C07 };

    ghost test = { λ role. pasts.applies_C07 };

    ghost found = { trying.tries_C07 };

    fn rule() -> Rule {
        Rule::C07
    }

    #[inline(always)]
    fn is_tried(role: Role, state: &ConnectionState, event: NoteRef<'_>) -> bool {
        matches!(role, Role::Server) && (sends_connack(event) && has_clean_start(state))
    }

    ghost says = { λ role. refl };

    ghost tallied = { refl };

    ghost finds = { trying.C07_tried };
}

/// A CONNACK that accepts, and could name a session that isn't there: C08.
#[derive(Drop)]
pub struct C08;

impl Tried for C08 {
    ghost rule = { rules.C08 };

    ghost test = { λ role. pasts.applies_C08 };

    ghost found = { trying.tries_C08 };

    fn rule() -> Rule {
        Rule::C08
    }

    #[inline(always)]
    fn is_tried(role: Role, state: &ConnectionState, event: NoteRef<'_>) -> bool {
        matches!(role, Role::Server) && (accepts(event) && may_be_wrong(state, event))
    }

    ghost says = { λ role. refl };

    ghost tallied = { refl };

    ghost finds = { trying.C08_tried };
}

/// A CONNACK that refuses: C09.
#[derive(Drop)]
pub struct C09;

impl Tried for C09 {
    ghost rule = { rules.C09 };

    ghost test = { λ role. pasts.applies_C09 };

    ghost found = { λ role s n. trying.tries_C09 role n };

    fn rule() -> Rule {
        Rule::C09
    }

    #[inline(always)]
    fn is_tried(role: Role, _: &ConnectionState, event: NoteRef<'_>) -> bool {
        matches!(role, Role::Server) && (sends_connack(event) && !accepts(event))
    }

    ghost says = { λ role. refl };

    ghost tallied = { refl };

    ghost finds = { trying.C09_tried };
}

/// A CONNACK that accepts an empty Client Identifier: C10.
#[derive(Drop)]
pub struct C10;

impl Tried for C10 {
    ghost rule = { rules.C10 };

    ghost test = { λ role. pasts.applies_C10 };

    ghost found = { trying.tries_C10 };

    fn rule() -> Rule {
        Rule::C10
    }

    #[inline(always)]
    fn is_tried(role: Role, state: &ConnectionState, event: NoteRef<'_>) -> bool {
        matches!(role, Role::Server) && (accepts(event) && is_unnamed(state))
    }

    ghost says = { λ role. refl };

    ghost tallied = { refl };

    ghost finds = { trying.C10_tried };
}

/// What comes after a DISCONNECT: C11.
#[derive(Drop)]
pub struct C11;

impl Tried for C11 {
    ghost rule = { rules.C11 };

    ghost test = { λ role. pasts.applies_C11 };

    ghost found = { λ role s n. trying.tries_C11 s n };

    fn rule() -> Rule {
        Rule::C11
    }

    #[inline(always)]
    fn is_tried(_: Role, state: &ConnectionState, event: NoteRef<'_>) -> bool {
        sends_or_closes(event) && state.has_sent_disconnect
    }

    ghost says = { λ role. refl };

    ghost tallied = { refl };

    ghost finds = { trying.C11_tried };
}

/// What comes after a CONNACK that refuses: C12.
#[derive(Drop)]
pub struct C12;

impl Tried for C12 {
    ghost rule = { rules.C12 };

    ghost test = { λ role. pasts.applies_C12 };

    ghost found = { trying.tries_C12 };

    fn rule() -> Rule {
        Rule::C12
    }

    #[inline(always)]
    fn is_tried(role: Role, state: &ConnectionState, event: NoteRef<'_>) -> bool {
        matches!(role, Role::Server) && (sends_or_closes(event) && state.has_sent_refusal)
    }

    ghost says = { λ role. refl };

    ghost tallied = { refl };

    ghost finds = { trying.C12_tried };
}

/// What comes after a CONNACK that resumed a session which wasn't there: C13.
#[derive(Drop)]
pub struct C13;

impl Tried for C13 {
    ghost rule = { rules.C13 };

    ghost test = { λ role. pasts.applies_C13 };

    ghost found = { trying.tries_C13 };

    fn rule() -> Rule {
        Rule::C13
    }

    #[inline(always)]
    fn is_tried(role: Role, state: &ConnectionState, event: NoteRef<'_>) -> bool {
        matches!(role, Role::Client)
            && (sends_packet_or_closes(event) && is_resumed_for_nothing(state))
    }

    ghost says = { λ role. refl };

    ghost tallied = { refl };

    ghost finds = { trying.C13_tried };
}
