//! Events of a connection are held until its fate is decided: a client may send packets before its
//! CONNACK (MQTT 5.0, section 3.1.4).
ghost use Rattle.std.specs.Prelude.{true, ◌≡◌, ◌∷◌, ◌++◌, ◌&&◌, ◌||◌, ◌+◌, [], ℕ, List, Option, Some, None, is_some, not, reverse, cond, OnOk, OnErr, IfOk};
ghost use Rattle.std.specs.Option.{option_or};
ghost use Rattle.mq_rules.specs.declared.role.Tested.{Tested as TheTested};
ghost use Rattle.mq_rules.specs.declared.fate.Fate.{Fate as TheFate};
ghost use Rattle.mq_rules.specs.declared.fate.Fate.TheVariants as fates;
ghost use Rattle.mq_rules.specs.Occasions.{places};
ghost use Rattle.mq_rules.specs.declared.note.Seen.{Seen as TheSeen};
ghost use Rattle.mq_rules.specs.declared.rule.Rule.{Rule as TheRule};
ghost use Rattle.mq_rules.specs.Notes.{is_open, note_of_bare, received_fields, sent_fields};
ghost use Rattle.mq_rules.specs.Connections.{latest_fate};
ghost use Rattle.mq_rules.specs.Histories.{gives_now, is_left_by};
ghost use Rattle.mq_rules.specs.Statements.{fails};
ghost use Rattle.mq_rules.specs.Under.{seen, Follows, is_on_session, turns_with};
ghost use Rattle.mq_rules.specs.Growing.{Gains, GainsWithin};
ghost use Rattle.mq_fates.specs.Holding as holding;
ghost use Rattle.mq_fates.specs.Holding.{is_nothing, CanHand, CanPass, fate_after, turns_held, turns_session, settled, number_in, event_size as size_of, waiting, Holds, IsSettled, held_weigh};
ghost use Rattle.mq_rules.specs.Weights.{in_word};

use crate::counting::{Asks, Counting};
use crate::fated::Fated;
use mq_log::Place3;
use mq_rules::{
    Bare, Brisk, Fate, Faults, History, Memory, Note, PacketFields, Role, Rule, Seen, Tested,
    Watch, step_apart,
};
use std::alloc::Global;

/// A watcher that holds the events of an undecided connection, and passes them on, in order, with
/// the event that decides it.
#[derive(Drop)]
pub struct Early<W> {
    alloc: Global,
    role: Role,
    fate: Option<Fate>,
    history: History,
    held: Vec<Seen>,
    watcher: W,
}

// Passes held events on, with the fate of their connection.
fn hand<W: Fated>(
    watcher: &mut W,
    decided: u32,
    fate: Fate,
    held: &[Seen],
    faults: &mut Faults,
) -> Result<(), Memory>
    ensures agrees { OnOk result ((tested : TheTested) (base : List TheSeen) → CanHand tested decided (reverse held.now) base → W.agrees watcher.old tested (latest_fate tested.role base) base → W.agrees watcher.new tested (fate_after tested fate (reverse held.now) base) (reverse held.now ++ base)) }
    ensures grows { OnOk result ((tested : TheTested) (base : List TheSeen) → CanHand tested decided (reverse held.now) base → W.agrees watcher.old tested (latest_fate tested.role base) base → Gains (λ k r. W.judges r && turns_held tested fate (reverse held.now) base k r) tested (reverse held.now ++ base) decided faults.old faults.new) }
    ensures memory { OnErr result ((tested : TheTested) (base : List TheSeen) → CanHand tested decided (reverse held.now) base → W.agrees watcher.old tested (latest_fate tested.role base) base → GainsWithin (λ k r. W.judges r && turns_held tested fate (reverse held.now) base k r) tested (reverse held.now ++ base) decided faults.old faults.new) }
{
    for event in held {
        watcher.fated(event.place, decided, fate, &event.note, faults)?;
    }
    Ok(())
}

// Passes on the held events, and then the one that decides their connection or comes after that.
fn pass<W: Fated>(
    watcher: &mut W,
    held: &[Seen],
    fate: Fate,
    at: Place3,
    note: &Note,
    faults: &mut Faults,
) -> Result<(), Memory>
    ensures agrees { OnOk result ((tested : TheTested) (base : List TheSeen) → CanPass tested fate (seen at note.now) (reverse held.now) base → W.agrees watcher.old tested (latest_fate tested.role base) base → W.agrees watcher.new tested (Some fate) (seen at note.now ∷ (reverse held.now ++ base))) }
    ensures grows { OnOk result ((tested : TheTested) (base : List TheSeen) → CanPass tested fate (seen at note.now) (reverse held.now) base → W.agrees watcher.old tested (latest_fate tested.role base) base → Gains (λ k r. W.judges r && turns_session tested (seen at note.now) (reverse held.now ++ base) k r) tested (seen at note.now ∷ (reverse held.now ++ base)) at.position faults.old faults.new) }
    ensures memory { OnErr result ((tested : TheTested) (base : List TheSeen) → CanPass tested fate (seen at note.now) (reverse held.now) base → W.agrees watcher.old tested (latest_fate tested.role base) base → GainsWithin (λ k r. W.judges r && turns_session tested (seen at note.now) (reverse held.now ++ base) k r) tested (seen at note.now ∷ (reverse held.now ++ base)) at.position faults.old faults.new) }
{
    hand(watcher, at.position, fate, held, faults)?;
    watcher.fated(at, at.position, fate, note, faults)?;
    Ok(())
}

// The fate of the latest connection after an event.
fn fate_next(role: Role, fate: Option<Fate>, history: &History, note: &Note) -> Option<Fate>
    ensures { result ≡ cond (is_open note.now) None (option_or fate (gives_now role history.now note.now)) }
{
    if note.is_open() {
        return None;
    }
    fate.or(history.gives(role, note))
}

// Holds an event.
fn hold(alloc: Global, held: &mut Vec<Seen>, place: Place3, note: &Note) -> Result<(), Memory>
    ensures { OnOk result (held.new.items ≡ held.old.items ++ (seen place note.now ∷ [])) }
{
    let note = note.copy(alloc)?;
    held.push(Seen { place, note })?;
    Ok(())
}

// How many filters a packet has, if it is a SUBSCRIBE or an UNSUBSCRIBE.
fn filters_of(fields: &PacketFields) -> usize
    ensures { result ≡ holding.filters_of fields.now }
{
    match fields {
        PacketFields::Subscribe { filters, .. } => filters.len(),
        PacketFields::Unsubscribe { filters, .. } => filters.len(),
        _ => 0,
    }
}

// How many Reason Codes it has, if it is a SUBACK or an UNSUBACK.
fn codes_of(fields: &PacketFields) -> usize
    ensures { result ≡ holding.codes_of fields.now }
{
    match fields {
        PacketFields::Suback { codes, .. } => codes.len(),
        PacketFields::Unsuback { codes, .. } => codes.len(),
        _ => 0,
    }
}

// How many filters a packet has that is received.
fn filters_in(note: &Note) -> usize
    ensures { result ≡ number_in holding.filters_of (received_fields note.now) }
{
    match note.received_fields() {
        Some(fields) => filters_of(fields),
        None => 0,
    }
}

// How many Reason Codes a packet has that is sent.
fn codes_in(note: &Note) -> usize
    ensures { result ≡ number_in holding.codes_of (sent_fields note.now) }
{
    match note.sent_fields() {
        Some(fields) => codes_of(fields),
        None => 0,
    }
}

// How much an event counts: itself, and the filters or Reason Codes that it carries.
fn event_size(note: &Note) -> usize
    ensures { result ≡ in_word (size_of note.now) }
{
    1_usize.saturating_add(filters_in(note).saturating_add(codes_in(note)))
}

// How much is held.
fn held_size(held: &[Seen]) -> usize
    ensures { result ≡ in_word (held_weigh held.now) }
{
    let mut size = 0_usize;
    for event in held {
        size = size.saturating_add(event_size(&event.note));
    }
    size
}

impl<W: Fated> Early<W> {
    /// Around this watcher, before any event.
    pub fn new(alloc: Global, tested: Tested, watcher: W) -> Self
        ensures { W.agrees watcher tested (Some fates.Void) [] → ⟦<Early<W> as Watch>⟧.agrees result tested (Some fates.Void) [] }
    {
        Early {
            alloc,
            role: tested.role,
            fate: Some(Fate::Void),
            history: History::new(),
            held: Vec::new(alloc),
            watcher,
        }
    }

    /// The watcher. It has taken in the events up to the latest connection that is decided. Each
    /// position at which a statement on sessions is false is one of these, and they alone show its
    /// moment and the fate of its connection.
    pub fn watcher(&self) -> &W
        ensures is { result.now ≡ self.now.watcher }
        ensures agrees { (tested : TheTested) (taken : Option TheFate) (past : List TheSeen) → ⟦<Early<W> as Watch>⟧.agrees self.now tested taken past → W.agrees result.now tested (latest_fate tested.role (settled tested.role past)) (settled tested.role past) }
        ensures failed { (tested : TheTested) (taken : Option TheFate) (past : List TheSeen) (k : ℕ) (r : TheRule) → ⟦<Early<W> as Watch>⟧.agrees self.now tested taken past → is_on_session tested r ≡ true → fails tested past k r ≡ true → IsSettled tested past k }
    {
        &self.watcher
    }
}

impl<W> Early<W> {
    /// What becomes of the latest connection. None if it is undecided.
    pub fn latest_fate(&self) -> Option<Fate>
        ensures { result ≡ self.now.fate }
    {
        self.fate
    }

    // Whether a bare packet changes nothing here on a connection that is decided: no
    // events are held, and its history stays as it is.
    #[inline(always)]
    fn is_left_by(&self, bare: Bare<'_>) -> bool
        ensures { result ≡ (is_left_by self.now.history (note_of_bare bare.entry) && is_nothing self.now.held.items) }
    {
        self.history.is_left_by(bare) && self.held.is_empty()
    }
}

impl<W: Fated> Watch for Early<W> {
    ghost agrees = { λ s tested taken past. Holds (W.agrees s.watcher tested) s.role s.fate s.history s.held.items tested past };

    ghost takes = { λ tested taken e past. Unit {0} };

    ghost adds = { λ tested e past k r. W.judges r && turns_session tested e past k r };

    ghost weighs = { λ s. held_weigh s.held.items + W.weighs s.watcher };

    ghost bound = { λ tested taken past. waiting tested.role past + W.bound tested (latest_fate tested.role (settled tested.role past)) (settled tested.role past) };

    fn step(&mut self, at: Place3, note: &Note, faults: &mut Faults) -> Result<(), Memory> {
        self.fate = fate_next(self.role, self.fate, &self.history, note);
        self.history.consume(self.role, note);
        match self.fate {
            None => hold(self.alloc, &mut self.held, at, note)?,
            Some(fate) => {
                pass(&mut self.watcher, &self.held, fate, at, note, faults)?;
                self.held.clear();
            }
        }
        Ok(())
    }

    // The list of the struct, with the filters and Reason Codes of its events, and the watcher.
    fn weight(&self) -> usize {
        held_size(self.held.as_slice()).saturating_add(self.watcher.weight())
    }
}

impl<W: Fated> Brisk for Early<W> {
    // Most packets go on to the watcher at once.
    #[inline(always)]
    fn step_bare(&mut self, at: Place3, bare: Bare<'_>, faults: &mut Faults) -> Result<(), Memory> {
        match self.fate {
            Some(fate) => {
                if !self.is_left_by(bare) {
                    return step_apart(self, at, bare, faults);
                }
                self.watcher.fated(at, at.position, fate, &bare, faults)?;
                Ok(())
            }
            None => step_apart(self, at, bare, faults),
        }
    }
}

impl<W: Asks> Early<Counting<W>> {
    /// How many places a statement has in the log so far. On an undecided connection nothing was
    /// put to the test yet.
    pub fn places(&self, rule: Rule) -> u32
        ensures { (tested : TheTested) (taken : Option TheFate) (past : List TheSeen) → ⟦<Early<Counting<W>> as Watch>⟧.agrees self.now tested taken past → W.counted rule ≡ true → result ≡ places tested past rule }
    {
        self.watcher.places(rule)
    }
}
