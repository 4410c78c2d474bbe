//! Releases of QoS 2 messages for onward delivery (MQTT 5.0, section 4.3.3).
ghost use Rattle.std.specs.Prelude.{refl};
ghost use Rattle.std.specs.Prelude.{◌≡◌, ◌∷◌, ◌+◌, ◌*◌, ℕ, Bool, ◌||◌, ◌&&◌, not, List, Option, OnOk, OnErr, [], Some};
ghost use Rattle.mq_rules.specs.declared.role.Tested.{Tested as TheTested};
ghost use Rattle.mq_rules.specs.declared.fate.Fate.{Fate as TheFate};
ghost use Rattle.mq_rules.specs.declared.fate.Fate.TheVariants.{Void};
ghost use Rattle.mq_rules.specs.declared.note.Seen.{Seen};
ghost use Rattle.mq_rules.specs.declared.rule.Rule.TheVariants.{L1, L2, L3};
ghost use Rattle.mq_rules.specs.Connections.{accepts};
ghost use Rattle.mq_rules.specs.Notes.{is_open};
ghost use Rattle.mq_rules.specs.Rules.{same_rule};
ghost use Rattle.mq_rules.specs.Under.{seen, IsUnder, fate_before, turns_with};
ghost use Rattle.mq_rules.specs.Growing.{Gains, GainsWithin};
ghost use Rattle.mq_exchanges.specs.Burden.{brought_ids, released_ids};
ghost use Rattle.mq_exchanges.specs.Weights.{releases_weighs};
ghost use Rattle.mq_exchanges.specs.Releasing as keeping;
ghost use Rattle.mq_exchanges.specs.Releasing.{IsReleasing, has_id};
ghost use Rattle.mq_exchanges.specs.Concerns.{concerns_releases};
ghost use Rattle.mq_rules.specs.Notes.{note_in, note_of_bare};

mod asking;
mod receiving;

pub use asking::ReleasePlaces;
use mq_fates::{Fated, Selective, Taken, is_placed, judge_by, place};
use mq_log::Place3;
use mq_rules::{
    Bare, CountedByIdentifier, Fate, Faults, Memory, Note, NoteRef, Noted, Role, Rule, Tested,
};
use std::alloc::Global;

/// Watches L1, L2 and L3.
///
/// A RELEASE between connections, or on a void one, belongs to the session of the latest accepted
/// connection.
#[derive(Drop)]
pub struct Releases {
    role: Role,
    releases: bool,
    fate: Fate,
    has_accepted: bool,
    /// The identifiers of QoS 2 PUBLISHes that were received and whose exchange hasn't ended.
    brought: CountedByIdentifier<()>,
    /// The identifiers that were released, and whose exchange hasn't ended.
    released: CountedByIdentifier<()>,
    /// Those among `brought` whose message needs a RELEASE.
    due: CountedByIdentifier<()>,
}

// Whether an event is in a session.
fn is_inside(fate: Fate, note: &Note, has_accepted: bool) -> bool
    ensures { result ≡ keeping.is_inside fate note.now has_accepted }
{
    fate.accepts() || (note.is_release() && (fate.is_void() && has_accepted))
}

// Whether some connection was accepted, after an event.
fn has_accepted(fate: Fate, note: &Note, before: bool) -> bool
    ensures { result ≡ (before || (is_open note.now && accepts fate)) }
{
    before || (note.is_open() && fate.accepts())
}

// Whether the session starts over with an event.
fn starts_over(fate: Fate, note: &Note) -> bool
    ensures { result ≡ keeping.starts_over fate note.now }
{
    note.is_open() && fate.begins()
}

// Takes out what is lost by an event of the session, and puts in what is gained.
#[inline(always)]
fn revise(
    set: &mut CountedByIdentifier<()>,
    over: bool,
    inside: bool,
    gained: Option<u16>,
    lost: Option<u16>,
) -> Result<(), Memory>
    ensures { OnOk result ((i : ℕ) → has_id set.new i ≡ keeping.kept_next over inside gained lost i (has_id set.old i)) }
{
    if over {
        set.clear();
    }
    if !inside {
        return Ok(());
    }
    if let Some(i) = lost {
        set.remove(i);
    }
    if let Some(i) = gained {
        set.insert(i, ())?;
    }
    Ok(())
}

// Whether a PUBLISH with a Message Expiry Interval is received (MQTT 5.0, section 3.3.2.3.3).
fn expires(note: &Note) -> bool
    ensures { result ≡ keeping.expires note.now }
{
    match note.received_publish() {
        Some(publish) => publish.has_message_expiry,
        None => false,
    }
}

// The identifier of a QoS 2 PUBLISH that is the first under it, and can't expire.
#[inline(always)]
fn lasting(brings: Option<u16>, expires: bool, brought: &CountedByIdentifier<()>) -> Option<u16>
    ensures { result ≡ keeping.lasting_of brings expires (has_id brought.now) }
{
    match brings {
        Some(i) if !brought.contains(i) && !expires => Some(i),
        _ => None,
    }
}

// Takes in an event for the messages that need a RELEASE: what is unmatched needs none any more,
// and what lasts needs one.
#[inline(always)]
fn revise_due(
    due: &mut CountedByIdentifier<()>,
    over: bool,
    inside: bool,
    unmatched: Option<u16>,
    lasts: Option<u16>,
    ender: Option<u16>,
) -> Result<(), Memory>
    ensures { OnOk result ((i : ℕ) → has_id due.new i ≡ keeping.due_by over inside unmatched lasts ender i (has_id due.old i)) }
{
    revise(due, over, inside, None, unmatched)?;
    revise(due, false, inside, lasts, ender)?;
    Ok(())
}

// Whether an event releases a message that wasn't received.
fn is_unreceived(releases: bool, note: &Note, brought: &CountedByIdentifier<()>) -> bool
    ensures { result ≡ (releases && keeping.is_unreceived note.now (has_id brought.now)) }
{
    releases
        && match note.released_identifier() {
            Some(i) => !brought.contains(i),
            None => false,
        }
}

// Whether an event releases a message again.
fn is_repeated(releases: bool, note: &Note, released: &CountedByIdentifier<()>) -> bool
    ensures { result ≡ (releases && keeping.is_repeated note.now (has_id released.now)) }
{
    releases
        && match note.released_identifier() {
            Some(i) => released.contains(i),
            None => false,
        }
}

// Whether an exchange is completed with success, and the RELEASE that its message needs is missing.
#[inline(always)]
fn is_unreleased(
    releases: bool,
    fate: Fate,
    completed: Option<u16>,
    released: &CountedByIdentifier<()>,
    due: &CountedByIdentifier<()>,
) -> bool
    ensures { result ≡ (releases && keeping.completes_unreleased fate completed (has_id released.now) (has_id due.now)) }
{
    releases
        && fate.accepts()
        && match completed {
            Some(i) => !released.contains(i) && due.contains(i),
            None => false,
        }
}

impl Releases {
    /// No message was received, and none was released.
    pub fn new(alloc: Global, tested: Tested) -> Self
        ensures { ⟦<Releases as Fated>⟧.agrees result tested (Some Void) [] }
    {
        Releases {
            role: tested.role,
            releases: tested.releases,
            fate: Fate::Void,
            has_accepted: false,
            brought: CountedByIdentifier::new(alloc),
            released: CountedByIdentifier::new(alloc),
            due: CountedByIdentifier::new(alloc),
        }
    }
}

impl Fated for Releases {
    ghost agrees = { λ s tested taken past. IsReleasing s.role s.releases s.fate s.has_accepted (has_id s.brought) (has_id s.released) (has_id s.due) tested taken past };

    ghost judges = { λ r. (same_rule r L1 || same_rule r L2) || same_rule r L3 };

    ghost weighs = { releases_weighs };

    ghost bound = { λ tested taken past. 2 * brought_ids tested.role taken past + released_ids tested.role taken past };

    #[inline(always)]
    fn fated<E: Taken>(
        &mut self,
        at: Place3,
        decided: u32,
        fate: Fate,
        event: &E,
        faults: &mut Faults,
    ) -> Result<(), Memory> {
        match event.as_ref() {
            NoteRef::Kept(note) => self.take_noted(at, decided, fate, note, faults),
            NoteRef::Bare(bare) => {
                if decided == at.position {
                    self.take_bare(at, bare, faults)?;
                    return Ok(());
                }
                self.take_late(at, decided, fate, bare, faults)
            }
        }
    }

    // All three sets of the struct.
    fn weight(&self) -> usize {
        self.brought
            .len()
            .saturating_add(self.released.len())
            .saturating_add(self.due.len())
    }
}

impl Releases {
    // Takes in an event by its note.
    fn take_noted(
        &mut self,
        at: Place3,
        decided: u32,
        fate: Fate,
        note: &Note,
        faults: &mut Faults,
    ) -> Result<(), Memory>
        ensures agrees { OnOk result ((tested : TheTested) (past : List Seen) → IsUnder tested fate decided (seen at note.now) past → ⟦<Releases as Fated>⟧.agrees self.old tested (fate_before tested fate (seen at note.now) past) past → ⟦<Releases as Fated>⟧.agrees self.new tested (Some fate) (seen at note.now ∷ past)) }
        ensures grows { OnOk result ((tested : TheTested) (past : List Seen) → IsUnder tested fate decided (seen at note.now) past → ⟦<Releases as Fated>⟧.agrees self.old tested (fate_before tested fate (seen at note.now) past) past → Gains (λ k r. ⟦<Releases as Fated>⟧.judges r && turns_with tested fate (seen at note.now) past k r) tested (seen at note.now ∷ past) decided faults.old faults.new) }
        ensures memory { OnErr result ((tested : TheTested) (past : List Seen) → IsUnder tested fate decided (seen at note.now) past → ⟦<Releases as Fated>⟧.agrees self.old tested (fate_before tested fate (seen at note.now) past) past → GainsWithin (λ k r. ⟦<Releases as Fated>⟧.judges r && turns_with tested fate (seen at note.now) past k r) tested (seen at note.now ∷ past) decided faults.old faults.new) }
    {
        let placed = is_placed(fate, decided == at.position);
        let unreceived = place(placed, is_unreceived(self.releases, note, &self.brought));
        let repeated = place(placed, is_repeated(self.releases, note, &self.released));
        let completed = note.sent_success_pubcomp();
        let unreleased = is_unreleased(self.releases, fate, completed, &self.released, &self.due);
        let inside = is_inside(fate, note, self.has_accepted);
        let over = starts_over(fate, note);
        let brings = note.received_exactly_once();
        let unmatched = note.sent_unmatched_pubrec();
        let ender = note.ender();
        let frees = note.released_identifier();
        let lasts = lasting(brings, expires(note), &self.brought);
        revise_due(&mut self.due, over, inside, unmatched, lasts, ender)?;
        revise(&mut self.brought, over, inside, brings, ender)?;
        revise(&mut self.released, over, inside, frees, ender)?;
        self.has_accepted = has_accepted(fate, note, self.has_accepted);
        self.fate = fate;
        judge_by(Rule::L1, unreceived, at, decided, faults)?;
        judge_by(Rule::L2, repeated, at, decided, faults)?;
        judge_by(Rule::L3, unreleased, at, decided, faults)?;
        Ok(())
    }

    // Takes in a bare packet that was held, by a note. None is held in this form.
    #[inline(never)]
    fn take_late(
        &mut self,
        at: Place3,
        decided: u32,
        fate: Fate,
        bare: Bare<'_>,
        faults: &mut Faults,
    ) -> Result<(), Memory>
        ensures agrees { OnOk result ((tested : TheTested) (past : List Seen) → IsUnder tested fate decided (seen at (note_of_bare bare.entry)) past → ⟦<Releases as Fated>⟧.agrees self.old tested (fate_before tested fate (seen at (note_of_bare bare.entry)) past) past → ⟦<Releases as Fated>⟧.agrees self.new tested (Some fate) (seen at (note_of_bare bare.entry) ∷ past)) }
        ensures grows { OnOk result ((tested : TheTested) (past : List Seen) → IsUnder tested fate decided (seen at (note_of_bare bare.entry)) past → ⟦<Releases as Fated>⟧.agrees self.old tested (fate_before tested fate (seen at (note_of_bare bare.entry)) past) past → Gains (λ k r. ⟦<Releases as Fated>⟧.judges r && turns_with tested fate (seen at (note_of_bare bare.entry)) past k r) tested (seen at (note_of_bare bare.entry) ∷ past) decided faults.old faults.new) }
        ensures memory { OnErr result ((tested : TheTested) (past : List Seen) → IsUnder tested fate decided (seen at (note_of_bare bare.entry)) past → ⟦<Releases as Fated>⟧.agrees self.old tested (fate_before tested fate (seen at (note_of_bare bare.entry)) past) past → GainsWithin (λ k r. ⟦<Releases as Fated>⟧.judges r && turns_with tested fate (seen at (note_of_bare bare.entry)) past k r) tested (seen at (note_of_bare bare.entry) ∷ past) decided faults.old faults.new) }
    {
        let note = bare.note();
        self.take_noted(at, decided, fate, &note, faults)
    }
}

impl Selective for Releases {
    ghost concerns = { λ tested. concerns_releases };

    fn passes(&self) {}

    #[inline(always)]
    fn may_concern<E: Taken>(&self, event: &E) -> bool {
        event.may_concern_releases()
    }
}
