//! What is kept of earlier connections, for a PUBLISH that is sent again though it isn't open (MQTT
//! 5.0, section 4.4).
ghost use Rattle.std.specs.Prelude.{◌≡◌, ◌&&◌, ◌||◌, not, ℕ, false, Some, OnOk, nat_eq};
ghost use Rattle.indexmap.specs.IndexSet.{contains};
ghost use Rattle.mq_rules.specs.Notes.{is_cutting as cuts};
ghost use Rattle.mq_inflight.specs.Earlier as earlier;

use indexmap::IndexSet;
use mq_rules::{Fate, Memory, Note, Role};
use std::alloc::Global;

/// What was cut off or sent on earlier connections.
#[derive(Drop)]
pub struct Earlier {
    /// A PUBLISH of QoS 1 or 2 was cut off on a void connection.
    pub cut_on_void: bool,
    /// One was cut off in the session.
    pub cut: bool,
    /// The server accepted a connection before the latest one.
    pub accepted: bool,
    /// The identifiers of PUBLISH packets that a client sent before the CONNACK with which the
    /// session began, or begins.
    pub first: IndexSet<u16>,
}

// Whether an event is a CLOSE that cut off a PUBLISH.
fn is_cutting(note: &Note) -> bool
    ensures { result ≡ cuts note.now }
{
    match note {
        Note::Close { cuts_publish, .. } => *cuts_publish,
        _ => false,
    }
}

// Whether a session begins with a connection of this fate.
fn begins_here(fate: Fate, accepted: bool) -> bool
    ensures { result ≡ earlier.begins_here (Some fate) accepted }
{
    fate.accepts() && (fate.begins() || !accepted)
}

// Whether a PUBLISH was cut off on a void connection, after an event.
fn cut_on_void_after(old: bool, fate: Fate, note: &Note) -> bool
    ensures { result ≡ earlier.cut_on_void_next fate note.now old }
{
    (is_cutting(note) && fate.is_void()) || old
}

// Whether one was cut off in the session.
fn cut_after(old: bool, fate: Fate, note: &Note) -> bool
    ensures { result ≡ earlier.cut_next fate note.now old }
{
    if note.is_open() {
        return !fate.begins() && old;
    }
    (is_cutting(note) && fate.accepts()) || old
}

// Whether a connection was accepted before the latest one, where the one before an OPEN had this
// fate.
fn accepted_after(old: bool, before: Fate, note: &Note) -> bool
    ensures { result ≡ earlier.accepted_next before note.now old }
{
    if note.is_open() {
        return !before.is_void() || old;
    }
    old
}

// Takes in a PUBLISH that a client sends before the CONNACK with which a session begins. What was
// sent before another one ends at its OPEN.
fn take_first(
    first: &mut IndexSet<u16>,
    alloc: Global,
    role: Role,
    fate: Fate,
    known: bool,
    accepted: bool,
    note: &Note,
) -> Result<(), Memory>
    ensures { OnOk result ((i : ℕ) → contains nat_eq first.new i ≡ earlier.first_next role fate known accepted note.now i (contains nat_eq first.old i)) }
{
    if note.is_open() {
        if begins_here(fate, accepted) {
            // A large set that is cleared costs its size each time.
            *first = IndexSet::new(alloc);
        }
        return Ok(());
    }
    if known {
        return Ok(());
    }
    take_early(first, role, begins_here(fate, accepted), note)?;
    Ok(())
}

// Takes in a PUBLISH that a client sends before a CONNACK, if a session begins with that.
#[inline(never)]
fn take_early(
    first: &mut IndexSet<u16>,
    role: Role,
    begins: bool,
    note: &Note,
) -> Result<(), Memory>
    ensures { OnOk result ((i : ℕ) → contains nat_eq first.new i ≡ earlier.early_next role begins note.now i (contains nat_eq first.old i)) }
{
    match role {
        Role::Server => Ok(()),
        Role::Client => {
            if begins {
                if let Some(i) = note.delivery() {
                    first.insert(i)?;
                }
            }
            Ok(())
        }
    }
}

impl Earlier {
    /// Nothing was.
    pub fn new(alloc: Global) -> Self
        ensures cut_on_void { result.cut_on_void ≡ false }
        ensures cut { result.cut ≡ false }
        ensures accepted { result.accepted ≡ false }
        ensures first { (i : ℕ) → contains nat_eq result.first i ≡ false }
    {
        Earlier {
            cut_on_void: false,
            cut: false,
            accepted: false,
            first: IndexSet::new(alloc),
        }
    }

    /// Whether a PUBLISH that isn't open may be sent again under this identifier, on a connection
    /// of this fate.
    pub fn may_resend(&self, fate: Fate, i: u16) -> bool
        ensures { result ≡ earlier.may_resend self.now fate i }
    {
        (!begins_here(fate, self.accepted) && self.first.contains(&i))
            || (self.cut_on_void || self.cut)
    }

    /// Takes in an event of a connection of this fate, which is known already or isn't. The
    /// connection before an OPEN had the fate `before`.
    ///
    /// # Errors
    ///
    /// `Memory` if there is no memory for an identifier.
    pub fn take_in(
        &mut self,
        alloc: Global,
        role: Role,
        before: Fate,
        fate: Fate,
        known: bool,
        note: &Note,
    ) -> Result<(), Memory>
        ensures { OnOk result (earlier.GoesOn self.old self.new role before fate known note.now) }
    {
        self.accepted = accepted_after(self.accepted, before, note);
        self.cut_on_void = cut_on_void_after(self.cut_on_void, fate, note);
        self.cut = cut_after(self.cut, fate, note);
        take_first(
            &mut self.first,
            alloc,
            role,
            fate,
            known,
            self.accepted,
            note,
        )?;
        Ok(())
    }
}
