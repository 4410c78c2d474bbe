//! What a resumed session owes (MQTT 5.0, section 4.4).
ghost use Rattle.std.specs.Prelude.{ℕ, ◌≡◌, ◌&&◌, ◌||◌, Some, IfOk, cond, ◌++◌, ◌∷◌, [], length, reverse};
ghost use Rattle.mq_rules.specs.declared.fate.Fate.TheVariants.{Resumed};
ghost use Rattle.mq_rules.specs.declared.note.Seen.{Seen as TheSeen};
ghost use Rattle.mq_rules.specs.Words.{is_id, is_some_and, only};
ghost use Rattle.mq_rules.specs.Notes.{sent_publish, closer_of};
ghost use Rattle.mq_rules.specs.Moments.{Moment, newest, note, since, some, IsPlaced};
ghost use Rattle.mq_rules.specs.Connections.{connection, session, resumed};
ghost use Rattle.mq_rules.specs.Identifiers.{shows_S06, refuses_retained as takes_none, sent_under as under, is_waiting as waits};
ghost use Rattle.mq_plain.specs.Owing.{covers, opener_over, moves, confirms, sends_under, is_owed as owed_so, owes};
ghost use Rattle.mq_plain.specs.Shown.{IsShown};
ghost use Rattle.mq_plain.specs.Tables.{at};

use crate::connection::{latest_fate_of, since_on_connection, some_on_connection};
use crate::handshake::handshake_of;
use crate::identifiers::Closes;
use crate::lookback::NoteTest;
use crate::passing::is_passed_over;
use crate::quota::is_used_up;
use crate::resting::RestStatement;
use crate::session::{begins_at, fate_before, is_accepted};
use crate::table::Table;
use mq_log::Place3;
use mq_rules::{Fate, Memory, Note, Role, Rule, Seen};
use std::alloc::Global;

// Marks an identifier, if there is one.
fn mark(marked: &mut Table<bool>, identifier: Option<u16>)
    ensures { (i : ℕ) → at marked.new i ≡ (is_id i identifier || at marked.old i) }
{
    if let Some(identifier) = identifier {
        marked.set(identifier, true);
    }
}

/// What needn't be sent again, unless a PUBREC below 0x80 came for it.
#[derive(Clone, Copy)]
pub struct Excuse {
    /// All of it: the send quota is used up.
    pub all: bool,
    /// What was sent with RETAIN 1: the peer takes nothing that is retained.
    pub retained: bool,
}

// Whether a PUBLISH with RETAIN 1 and a QoS above 0 is sent.
fn is_retained(note: &Note) -> bool
    ensures { result ≡ is_some_and (λ p. p.retain) (sent_publish note.now) }
{
    match note.sent_publish() {
        Some(publish) => publish.retain,
        None => false,
    }
}

// Whether an opener was passed over before these events end, if the latest connection resumed its
// session; so many events come before it.
fn is_opener_passed_over(role: Role, note: &Note, opener: usize, before: &[Seen]) -> bool
    ensures { (k : Moment) → k.event.note ≡ note.now → length k.past ≡ opener → result ≡ opener_over role (reverse before.now) k }
{
    match note.opener() {
        Some(identifier) => is_passed_over(role, Fate::Resumed, identifier, opener, before),
        None => false,
    }
}

impl Excuse {
    // Whether it excuses this opener, before which so many events come.
    fn covers(self, role: Role, note: &Note, opener: usize, before: &[Seen]) -> bool
        ensures { (k : Moment) → k.event.note ≡ note.now → length k.past ≡ opener → result ≡ covers role self (reverse before.now) k }
    {
        let passed = is_opener_passed_over(role, note, opener, before);
        self.excuses(passed, is_retained(note))
    }

    // Whether it excuses what was passed over or not, and retained or not.
    fn excuses(self, passed: bool, retained: bool) -> bool
        ensures { result ≡ ((self.all || passed) || (self.retained && retained)) }
    {
        (self.all || passed) || (self.retained && retained)
    }

    // The same of an opener that is owed if it isn't excused.
    fn covers_owed(
        self,
        is_candidate: bool,
        role: Role,
        note: &Note,
        opener: usize,
        before: &[Seen],
    ) -> bool
        ensures { (k : Moment) → k.event.note ≡ note.now → length k.past ≡ opener → result ≡ (is_candidate && covers role self (reverse before.now) k) }
    {
        if !is_candidate {
            return false;
        }
        self.covers(role, note, opener, before)
    }
}

// The identifier of a PUBLISH of QoS above 0, or of a PUBREL, that is sent.
fn sent_under(note: &Note) -> Option<u16>
    ensures { result ≡ under note.now }
{
    note.delivery().or(note.sent_pubrel())
}

/// A PUBLISH of QoS above 0, or a PUBREL, that is sent under an identifier.
#[derive(Drop)]
struct IsSentUnder(u16);

impl NoteTest for IsSentUnder {
    ghost use Rattle.mq_rules.specs.Words.{is_id};
    ghost use Rattle.mq_rules.specs.Identifiers.{sent_under};

    ghost test = { λ t n. is_id t.0 (sent_under n) };

    fn passes(&self, note: &Note) -> bool {
        sent_under(note) == Some(self.0)
    }
}

// Whether something that was sent under an identifier on the latest connection awaits its closer.
fn awaits_closer(identifier: u16, before: &[Seen]) -> bool
    ensures { result ≡ since (λ m. is_id identifier (under (note m))) (λ m. is_id identifier (closer_of (note m))) (connection (reverse before.now)) }
{
    since_on_connection(&IsSentUnder(identifier), &Closes(identifier), before)
}

/// A packet that is sent under an identifier which awaits its closer after these events.
#[derive(Drop)]
struct Awaits<'a> {
    before: &'a [Seen],
}

impl NoteTest for Awaits<'_> {
    ghost use Rattle.std.specs.Prelude.{reverse};
    ghost use Rattle.mq_rules.specs.Words.{is_id, is_some_and};
    ghost use Rattle.mq_rules.specs.Notes.{closer_of};
    ghost use Rattle.mq_rules.specs.Moments.{note, since};
    ghost use Rattle.mq_rules.specs.Connections.{connection};
    ghost use Rattle.mq_rules.specs.Identifiers.{sent_under};

    ghost test = { λ t n. is_some_and (λ i. since (λ m. is_id i (sent_under (note m))) (λ m. is_id i (closer_of (note m))) (connection (reverse t.before.now))) (sent_under n) };

    fn passes(&self, note: &Note) -> bool {
        match sent_under(note) {
            Some(identifier) => awaits_closer(identifier, self.before),
            None => false,
        }
    }
}

// Whether something that was sent on the latest connection awaits its closer.
fn is_waiting(before: &[Seen]) -> bool
    ensures { (rest : TheSeen) → result ≡ waits (newest rest (reverse before.now)) }
{
    some_on_connection(&Awaits { before }, before)
}

// The identifiers of which a PUBLISH or a PUBREL was sent on the latest connection.
//
// Errors: `Memory` if there is no memory for them.
fn sent_again(alloc: Global, before: &[Seen]) -> Result<Table<bool>, Memory>
    ensures { IfOk result (λ again. (i : ℕ) → at again i ≡ some (λ m. sends_under i (note m)) (connection (reverse before.now))) }
{
    let mut again = Table::new(alloc, false)?;
    let mut earlier = before;
    while let Some((event, rest)) = earlier.split_last() {
        mark(&mut again, event.note.delivery());
        mark(&mut again, event.note.sent_pubrel());
        if event.note.is_open() {
            return Ok(again);
        }
        earlier = rest;
    }
    Ok(again)
}

// An identifier, if its event is in the session.
fn only_if(is_in: bool, identifier: Option<u16>) -> Option<u16>
    ensures { result ≡ only is_in identifier }
{
    if is_in {
        return identifier;
    }
    None
}

// Marks the identifier that an event opens or closes, if it is in the session.
fn mark_moved(moved: &mut Table<bool>, is_in: bool, note: &Note)
    ensures { (i : ℕ) → at moved.new i ≡ ((is_in && moves i note.now) || at moved.old i) }
{
    mark(moved, only_if(is_in, note.opener()));
    mark(moved, only_if(is_in, note.closer()));
}

// Marks the identifier that an event confirms, if it is in the session.
fn mark_confirmed(confirmed: &mut Table<bool>, is_in: bool, note: &Note)
    ensures { (i : ℕ) → at confirmed.new i ≡ ((is_in && confirms i note.now) || at confirmed.old i) }
{
    mark(confirmed, only_if(is_in, note.received_accepting_pubrec()));
}

// Whether an opener is owed, if the event is one, given the identifiers that were sent again, and
// those moved and confirmed after it.
fn is_owed(
    is_excused: bool,
    again: &Table<bool>,
    moved: &Table<bool>,
    confirmed: &Table<bool>,
    opener: Option<u16>,
) -> bool
    ensures { result ≡ owed_so is_excused (at again.now) (at moved.now) (at confirmed.now) opener }
{
    match opener {
        Some(identifier) => {
            !moved.get(identifier)
                && !again.get(identifier)
                && (confirmed.get(identifier) || !is_excused)
        }
        None => false,
    }
}

// Adds a place, if its event is owed.
fn push_if(places: &mut Vec<Place3>, place: Place3, is_due: bool) -> Result<(), Memory>
    ensures { IfOk result (λ _. places.new.items ≡ cond is_due (places.old.items ++ place ∷ []) places.old.items) }
{
    if is_due {
        places.push(place)?;
    }
    Ok(())
}

// The places of what is owed in the current session after these events, if the latest connection
// resumed it; these identifiers were sent again there.
//
// Errors: `Memory` if there is no memory for them, or to look back.
fn owed_in_session(
    alloc: Global,
    role: Role,
    excuse: Excuse,
    again: &Table<bool>,
    before: &[Seen],
) -> Result<Vec<Place3>, Memory>
    ensures { IsPlaced (reverse before.now) → IfOk result (λ places. IsShown (owes (covers role excuse (reverse before.now)) (at again.now) (session role (Some Resumed) (reverse before.now))) (reverse before.now) places.items) }
{
    let mut moved = Table::new(alloc, false)?;
    let mut confirmed = Table::new(alloc, false)?;
    let mut places = Vec::new(alloc);
    let mut fate = Some(Fate::Resumed);
    let mut earlier = before;
    while let Some((event, rest)) = earlier.split_last() {
        let is_in = is_accepted(fate);
        let opener = only_if(is_in, event.note.opener());
        let is_candidate = is_owed(false, again, &moved, &confirmed, opener);
        let is_excused = excuse.covers_owed(is_candidate, role, &event.note, rest.len(), before);
        let is_due = is_owed(is_excused, again, &moved, &confirmed, opener);
        push_if(&mut places, event.place, is_due)?;
        if begins_at(fate, &event.note) {
            return Ok(places);
        }
        mark_moved(&mut moved, is_in, &event.note);
        mark_confirmed(&mut confirmed, is_in, &event.note);
        fate = fate_before(role, fate, &event.note, rest);
        earlier = rest;
    }
    Ok(places)
}

// Whether the peer announced that it takes no PUBLISH with RETAIN 1.
fn refuses_retained(role: Role, before: &[Seen]) -> bool
    ensures { (rest : TheSeen) → result ≡ takes_none role (newest rest (reverse before.now)) }
{
    handshake_of(role, before).refuses_retained(role)
}

// Whether a connection with this fate resumed a session.
fn is_resumed(fate: Option<Fate>) -> bool
    ensures { result ≡ resumed fate }
{
    match fate {
        Some(fate) => fate.resumes(),
        None => false,
    }
}

// The places of what is owed, as a REST after these events shows.
//
// Errors: `Memory` if there is no memory for them, or to look back.
fn owed_at_rest(alloc: Global, role: Role, before: &[Seen]) -> Result<Vec<Place3>, Memory>
    ensures { (rest : TheSeen) → IsPlaced (reverse before.now) → IfOk result (λ places. IsShown (shows_S06 role (newest rest (reverse before.now))) (reverse before.now) places.items) }
{
    if !is_resumed(latest_fate_of(role, before)) {
        return Ok(Vec::new(alloc));
    }
    if is_waiting(before) {
        return Ok(Vec::new(alloc));
    }
    let again = sent_again(alloc, before)?;
    let excuse = Excuse {
        all: is_used_up(role, before),
        retained: refuses_retained(role, before),
    };
    owed_in_session(alloc, role, excuse, &again, before)
}

/// S06: when a session is resumed, each PUBLISH or PUBREL of it that is unacknowledged is sent
/// again.
pub struct Resends;

impl RestStatement for Resends {
    ghost use Rattle.std.specs.Prelude.{refl};
    ghost use Rattle.mq_rules.specs.declared.rule.Rule.TheVariants.{S06};
    ghost use Rattle.mq_rules.specs.Identifiers.{shows_S06};

    ghost judged = { S06 };

    ghost shows = { shows_S06 };

    fn rule() -> Rule {
        Rule::S06
    }

    fn shown(
        alloc: Global,
        role: Role,
        _rest: &Seen,
        before: &[Seen],
    ) -> Result<Vec<Place3>, Memory> {
        owed_at_rest(alloc, role, before)
    }

    ghost says = { λ role. refl };
}
