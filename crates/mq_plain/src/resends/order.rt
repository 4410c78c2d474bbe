//! The order in which PUBLISH packets are sent again (MQTT 5.0, section 4.6).
ghost use Rattle.std.specs.Prelude.{◌≡◌, ◌&&◌, ◌||◌, ℕ, true, false, not, reverse, IfOk};
ghost use Rattle.mq_rules.specs.Words.{is_id, is_some_and};
ghost use Rattle.mq_rules.specs.Notes.{is_open, opener_of, closer_of, resend_of};
ghost use Rattle.mq_rules.specs.Moments.{newest};
ghost use Rattle.mq_rules.specs.Identifiers.{breaks_S05};
ghost use Rattle.mq_plain.specs.Lookback.{is_open_after};
ghost use Rattle.mq_plain.specs.Resends.{is_overtaken};
ghost use Rattle.mq_plain.specs.Tables.{at};

use crate::identifiers::{Opens, is_open_id};
use crate::judging::SessionStatement;
use crate::lookback::NoteTest;
use crate::session::{begins_at, fate_before, is_accepted};
use crate::table::Table;
use mq_rules::{Fate, Memory, Note, Role, Rule, Seen};
use std::alloc::Global;

// Whether an event opens an identifier, and is in the session.
fn opens_it(is_in: bool, identifier: u16, note: &Note) -> bool
    ensures { result ≡ (is_in && is_id identifier (opener_of note.now)) }
{
    is_in && Opens(identifier).passes(note)
}

// Whether an event opens an identifier that is in the table, and is in the session.
fn opens_resent(is_in: bool, resent: &Table<bool>, note: &Note) -> bool
    ensures { result ≡ (is_in && is_some_and (at resent.now) (opener_of note.now)) }
{
    match note.opener() {
        Some(identifier) => is_in && resent.get(identifier),
        None => false,
    }
}

// Removes the identifier that an event closes, if the event is in the session.
fn forget_closed(resent: &mut Table<bool>, is_in: bool, note: &Note)
    ensures { (o : ℕ) → at resent.new o ≡ (not (is_in && is_id o (closer_of note.now)) && at resent.old o) }
{
    if !is_in {
        return;
    }
    if let Some(identifier) = note.closer() {
        resent.set(identifier, false);
    }
}

// Adds the identifier that an event sends again, if the event is on the latest connection.
fn keep_resent(resent: &mut Table<bool>, is_on: bool, note: &Note)
    ensures { (o : ℕ) → at resent.new o ≡ ((is_on && is_id o (resend_of note.now)) || at resent.old o) }
{
    if !is_on {
        return;
    }
    if let Some(identifier) = note.resend() {
        resent.set(identifier, true);
    }
}

// Whether what comes before an event is on the latest connection; the flag says the same of the
// event.
fn is_on_before(is_on: bool, note: &Note) -> bool
    ensures { result ≡ (is_on && not (is_open note.now)) }
{
    is_on && !note.is_open()
}

// Whether something was sent again on the latest connection, which has this fate, that was open
// then and was opened after this identifier, which is open. Looking back, the table, empty at
// first, has what was sent again on the connection and not closed since: if an opener of it is
// found before this identifier's opener, that opener is the later one.
fn is_passed(
    resent: &mut Table<bool>,
    role: Role,
    fate: Fate,
    identifier: u16,
    before: &[Seen],
) -> bool
    ensures { ((o : ℕ) → at resent.old o ≡ false) → is_open_after role fate identifier (reverse before.now) ≡ true → result ≡ is_overtaken role fate identifier (reverse before.now) }
{
    let mut earlier = before;
    let mut fate = Some(fate);
    let mut is_on = true;
    while let Some((event, rest)) = earlier.split_last() {
        let is_in = is_accepted(fate);
        if opens_it(is_in, identifier, &event.note) {
            return false;
        }
        if opens_resent(is_in, resent, &event.note) {
            return true;
        }
        if begins_at(fate, &event.note) {
            return false;
        }
        forget_closed(resent, is_in, &event.note);
        keep_resent(resent, is_on, &event.note);
        is_on = is_on_before(is_on, &event.note);
        fate = fate_before(role, fate, &event.note, rest);
        earlier = rest;
    }
    false
}

// Whether an identifier is open, and on the latest connection something that was opened later was
// sent again while it was open.
//
// Errors: `Memory` if there is no memory to look back.
fn is_late(
    alloc: Global,
    role: Role,
    fate: Fate,
    identifier: u16,
    before: &[Seen],
) -> Result<bool, Memory>
    ensures { IfOk result (λ late. late ≡ (is_open_after role fate identifier (reverse before.now) && is_overtaken role fate identifier (reverse before.now))) }
{
    if !is_open_id(role, fate, identifier, before) {
        return Ok(false);
    }
    let mut resent = Table::new(alloc, false)?;
    Ok(is_passed(&mut resent, role, fate, identifier, before))
}

// Whether a packet sends again what is open, after something that was opened later.
//
// Errors: `Memory` if there is no memory to look back.
#[tactic(auto, unfolding(mq_rules::specs::Identifiers::breaks_S05))]
fn resends_late(
    alloc: Global,
    role: Role,
    fate: Fate,
    event: &Seen,
    before: &[Seen],
) -> Result<bool, Memory>
    ensures { IfOk result (λ late. late ≡ breaks_S05 role fate (newest event.now (reverse before.now))) }
{
    match event.note.resend() {
        Some(identifier) => is_late(alloc, role, fate, identifier, before),
        None => Ok(false),
    }
}

/// S05: PUBLISH packets are sent again on a connection in the order in which they were first sent.
pub struct ResendsInOrder;

impl SessionStatement for ResendsInOrder {
    ghost use Rattle.std.specs.Prelude.{refl};
    ghost use Rattle.mq_rules.specs.declared.rule.Rule.TheVariants.{S05};
    ghost use Rattle.mq_rules.specs.Identifiers.{breaks_S05};

    ghost judged = { S05 };

    ghost breaks = { breaks_S05 };

    fn rule() -> Rule {
        Rule::S05
    }

    fn is_broken(
        alloc: Global,
        role: Role,
        fate: Fate,
        event: &Seen,
        before: &[Seen],
    ) -> Result<bool, Memory> {
        resends_late(alloc, role, fate, event, before)
    }

    ghost says = { λ role. refl };
}
