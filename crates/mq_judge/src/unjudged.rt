//! What isn't judged of the events so far, kept in one pass.
ghost use Rattle.std.specs.Prelude.{◌≡◌, ◌∷◌, ◌++◌, ◌&&◌, ◌||◌, [], List, Some, is_none, not, cond, option_map, OnOk};
ghost use Rattle.std.specs.Option.{option_or};
ghost use Rattle.std.specs.List.{list_any};
ghost use Rattle.mq_rules.specs.declared.note.Seen.{Seen as TheSeen};
ghost use Rattle.mq_rules.specs.declared.role.Tested.{Tested as TheTested};
ghost use Rattle.mq_rules.specs.Words.{only, is_some_and};
ghost use Rattle.mq_rules.specs.Notes.{received_subscription, is_open, is_rest};
ghost use Rattle.mq_rules.specs.Connections.{accepted, latest_fate};
ghost use Rattle.mq_rules.specs.Subscriptions.{is_shared};
ghost use Rattle.mq_rules.specs.Under.{seen};
ghost use Rattle.mq_judge.specs.Unjudged as unjudged;
ghost use Rattle.mq_judge.specs.Unjudged.{lost_at, shown_in, with_whole};
ghost use Rattle.mq_judge.specs.Gathering.{Gathers};

use super::shown::{Shown, add};
use mq_fates::ended_after;
use mq_log::{Direction, Place3};
use mq_report::Gap;
use mq_rules::{Fate, ItemNote, Memory, Note, Role, Tested};
use mq_subscriptions::asks_for_shared;
use std::alloc::Global;

/// What isn't judged of the events so far, by their notes.
#[derive(Drop)]
pub struct Unjudged {
    /// What they show one by one.
    shown: Shown,
    /// The place of the latest OPEN.
    opened: Option<Place3>,
    /// The place of the first SUBSCRIBE that came and asks for a shared subscription.
    shared: Option<Place3>,
    /// Whether a REST bound.
    rested: bool,
    /// Whether no REST binds any more on the latest connection.
    ended: bool,
}

impl Unjudged {
    /// Before any event.
    pub fn new(alloc: Global) -> Self
        ensures { (tested : TheTested) → Gathers result tested [] }
    {
        Unjudged {
            shown: Shown::new(alloc),
            opened: None,
            shared: None,
            rested: false,
            ended: false,
        }
    }

    /// Takes in the next event. Before it and after it this became of the latest connection.
    pub fn take_in(&mut self, place: Place3, note: &Note, before: Option<Fate>, after: Option<Fate>)
        ensures { (tested : TheTested) (past : List TheSeen) → before ≡ latest_fate tested.role past → after ≡ latest_fate tested.role (seen place note.now ∷ past) → Gathers self.old tested past → Gathers self.new tested (seen place note.now ∷ past) }
    {
        self.rested = rested_after(note, before, self.ended, self.rested);
        self.ended = ended_after(self.ended, note);
        self.opened = opened_after(place, note, self.opened);
        self.shared = self.shared.or(shared_at(place, note));
        self.shown.keep(shown_at(place, note, before, after));
    }

    /// Adds what they show one by one to these gaps.
    ///
    /// # Errors
    ///
    /// `Memory` if there is no memory for it, or there was none when an event showed it.
    pub fn add_shown(&self, gaps: &mut Vec<Gap>) -> Result<(), Memory>
        ensures { (tested : TheTested) (past : List TheSeen) → Gathers self.now tested past → OnOk result (gaps.new.items ≡ gaps.old.items ++ shown_in tested.role past) }
    {
        self.shown.add_to(gaps)
    }

    /// Adds what they show together, of which these are of this end, and this became of the latest
    /// connection.
    ///
    /// # Errors
    ///
    /// `Memory` if there is no memory for it.
    pub fn add_whole(
        &self,
        gaps: &mut Vec<Gap>,
        tested: Tested,
        fate: Option<Fate>,
    ) -> Result<(), Memory>
        ensures { (past : List TheSeen) → fate ≡ latest_fate tested.role past → Gathers self.now tested past → OnOk result (gaps.new.items ≡ with_whole gaps.old.items tested past) }
    {
        add(gaps, undecided(fate, self.opened))?;
        add(gaps, shared_by(tested.role, self.shared))?;
        add(gaps, unrested(self.rested))?;
        add(gaps, unreleased(tested))?;
        Ok(())
    }
}

// ---- what an event shows

// Whether a REST has bound after an event: one binds if the server accepted the connection before
// it, and nothing there ended binding.
fn rested_after(note: &Note, before: Option<Fate>, ended: bool, rested: bool) -> bool
    ensures { result ≡ ((is_rest note.now && (accepted before && not ended)) || rested) }
{
    (note.is_rest() && (is_accepted(before) && !ended)) || rested
}

// Whether the server accepted the connection, with a session that is known.
fn is_accepted(fate: Option<Fate>) -> bool
    ensures { result ≡ accepted fate }
{
    match fate {
        Some(fate) => fate.accepts(),
        None => false,
    }
}

// The place of the latest OPEN after an event.
fn opened_after(place: Place3, note: &Note, old: Option<Place3>) -> Option<Place3>
    ensures { result ≡ cond (is_open note.now) (Some place) old }
{
    if note.is_open() { Some(place) } else { old }
}

// The place of a SUBSCRIBE that came and asks for a shared subscription.
fn shared_at(place: Place3, note: &Note) -> Option<Place3>
    ensures { result ≡ only (is_some_and (λ s. list_any is_shared s.filters) (received_subscription note.now)) (Some place) }
{
    if asks_for_shared(note) {
        Some(place)
    } else {
        None
    }
}

// What isn't judged from an event on: a direction that is given up, or a session that can't be
// told.
fn shown_at(place: Place3, note: &Note, before: Option<Fate>, after: Option<Fate>) -> Option<Gap>
    ensures { result ≡ option_or (lost_at place note.now) (only (is_none before && is_some_and unjudged.is_unknown after) (Some (Gap.UnknownSession place))) }
{
    lost(place, note).or(unknown(place, before, after))
}

// The direction that is given up.
fn lost(place: Place3, note: &Note) -> Option<Gap>
    ensures { result ≡ lost_at place note.now }
{
    match note {
        Note::Sent(ItemNote::Lost) => Some(Gap::Lost(Direction::Sent, place)),
        Note::Recv(ItemNote::Lost) => Some(Gap::Lost(Direction::Recv, place)),
        _ => None,
    }
}

// The session that can't be told, if the event gives its connection the fate Unknown.
fn unknown(place: Place3, before: Option<Fate>, after: Option<Fate>) -> Option<Gap>
    ensures { result ≡ only (is_none before && is_some_and unjudged.is_unknown after) (Some (Gap.UnknownSession place)) }
{
    if before.is_none() && is_unknown(after) {
        Some(Gap::UnknownSession(place))
    } else {
        None
    }
}

// Whether the server accepted the connection, and the log can't tell which session it has.
fn is_unknown(fate: Option<Fate>) -> bool
    ensures { result ≡ is_some_and unjudged.is_unknown fate }
{
    matches!(fate, Some(Fate::Unknown))
}

// ---- what the whole log shows

// The latest connection, if it is undecided.
fn undecided(fate: Option<Fate>, opened: Option<Place3>) -> Option<Gap>
    ensures { result ≡ only (is_none fate) (option_map Gap.UndecidedSession opened) }
{
    match fate {
        Some(_) => None,
        None => opened.map(|place| Gap::UndecidedSession(place)),
    }
}

// The first shared subscription, if a server was asked for it.
fn shared_by(role: Role, shared: Option<Place3>) -> Option<Gap>
    ensures { result ≡ unjudged.shared_by role shared }
{
    match role {
        Role::Client => None,
        Role::Server => shared.map(|place| Gap::Shared(place)),
    }
}

// That no REST bound.
fn unrested(rested: bool) -> Option<Gap>
    ensures { result ≡ only (not rested) (Some Gap.NoRest) }
{
    if rested { None } else { Some(Gap::NoRest) }
}

// That no releases are recorded.
fn unreleased(tested: Tested) -> Option<Gap>
    ensures { result ≡ unjudged.unreleased tested }
{
    if tested.releases {
        None
    } else {
        Some(Gap::NoReleases)
    }
}
