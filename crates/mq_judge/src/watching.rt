//! Judging each event as it comes.
ghost use Rattle.std.specs.Prelude.{◌≡◌, ◌∷◌, ◌+◌, [], ℕ, Bool, true, cond, Option, None, Some, List, length, map, ◌≤◌, ◌*◌, IfOk, IfSome, OnOk, OnErr};
ghost use Rattle.mq_watchers.specs.Burden.{burden};
ghost use Rattle.mq_watchers.specs.Kinds.{is_counting as counts};
ghost use Rattle.mq_rules.specs.declared.note.Seen.{Seen as TheSeen};
ghost use Rattle.mq_packet.specs.Reading.{view};
ghost use Rattle.mq_packet.specs.declared.packet.Packet.TheVariants as packets;
ghost use Rattle.mq_log.specs.Events.{Placed, packet as packet_item};
ghost use Rattle.mq_log.specs.Flows.{item_event};
ghost use Rattle.mq_log.specs.Reception.{event_of, packets_of, placed_at};
ghost use Rattle.mq_packet.specs.Entries.{Entry};
ghost use Rattle.mq_rules.specs.Parts.{IsTriedAs};
ghost use Rattle.mq_rules.specs.Notes.{tested_as, note_of, note_of_bare};
ghost use Rattle.mq_rules.specs.Weights.{in_word};
ghost use Rattle.mq_rules.specs.declared.role.Tested.{Tested as TheTested};
ghost use Rattle.mq_rules.specs.declared.fate.Fate.TheVariants.{Void};
ghost use Rattle.mq_judge.specs.Watching.{IsPublishTriedAs, IsWatching, IsTallying, TalliesNext, TakesIn, LeavesOut, CountsNothing, watchers_weigh};
ghost use Rattle.mq_judge.specs.Coverage.{places_among};
ghost use Rattle.mq_judge.specs.Unjudged.{unjudged_among};
ghost use Rattle.mq_judge.specs.Gathering.{Gathers, Tallies};
ghost use Rattle.mq_rules.specs.declared.fate.Fate.{Fate as TheFate};
ghost use Rattle.mq_rules.specs.Connections.{latest_fate};
ghost use Rattle.mq_rules.specs.Under.{seen as seen_at};
ghost use Rattle.mq_rules.specs.Notes.{seen as seen_of};

use super::tally::Tally;
use super::unjudged::Unjudged;
use mq_log::{Direction, Event, Header, Item, Place3, Refusal, UnfinishedPackets, item_event};
use mq_packet::{Packet, Publish};
use mq_report::Gap;
use mq_rules::{
    Bare, BareFields, Brisk, Fate, Faults, Further, Memory, Note, Rule, Tested, Watch, is_bare,
};
use mq_trace::Sink;
use mq_watchers::Watchers;
use std::alloc::Global;
use std::marker::{Brand, PhantomData};
use std::mem::replace;

/// The watchers of all statements, and the faults of the events that they have taken in.
#[derive(Drop)]
pub struct Watching {
    alloc: Global,
    /// The end that is judged: that of the log's header once an event has come.
    tested: Tested,
    watchers: Watchers,
    /// What is kept of the events themselves, if places are counted.
    tally: Tally,
    /// What isn't judged, by their notes, if places are counted.
    unjudged: Unjudged,
    /// The faults of the events so far.
    pub faults: Faults,
    /// How many events there were.
    pub events: u32,
}

impl Watching {
    /// Judges this end, before any event. Places are counted or not.
    pub fn new(alloc: Global, tested: Tested, counting: bool) -> Self
        ensures tested { result.tested ≡ tested }
        ensures counts { counts result.watchers ≡ counting }
        ensures watches { IsWatching result [] }
        ensures tallies { IsTallying result [] }
    {
        let watchers = watch(alloc, tested, counting);
        Watching {
            alloc,
            tested,
            watchers,
            tally: Tally::new(alloc),
            unjudged: Unjudged::new(alloc),
            faults: Faults::new(alloc),
            events: 0,
        }
    }

    /// The end that is judged.
    pub fn tested(&self) -> Tested
        ensures { result ≡ self.now.tested }
    {
        self.tested
    }

    /// Whether places are counted.
    #[inline(always)]
    pub fn is_counting(&self) -> bool
        ensures { result ≡ counts self.now.watchers }
    {
        self.watchers.is_counting()
    }

    /// How many places a statement has among the events so far, where places are counted.
    pub fn places(&self, rule: Rule) -> u32
        ensures { (events : List Placed) → counts self.now.watchers ≡ true → IsWatching self.now (map seen_of events) → IsTallying self.now events → result ≡ places_among self.now.tested events rule }
    {
        match self.watchers.places(rule) {
            Some(places) => places,
            None => self.tally.places(rule),
        }
    }

    /// What isn't judged of the events so far, where places are counted, if the log ends with them
    /// and leaves these packets unfinished.
    ///
    /// # Errors
    ///
    /// `Memory` if there is no memory for it, or there was none when an event showed it.
    pub fn gaps(&self, alloc: Global, left: &UnfinishedPackets<'_>) -> Result<Vec<Gap>, Memory>
        ensures { (events : List Placed) → counts self.now.watchers ≡ true → IsWatching self.now (map seen_of events) → IsTallying self.now events → IfOk result (λ gaps. gaps.items ≡ unjudged_among self.now.tested events (packets_of left.now)) }
    {
        let mut gaps = Vec::new(alloc);
        self.unjudged.add_shown(&mut gaps)?;
        self.tally.add_to(&mut gaps, left)?;
        let fate = self.watchers.latest_fate();
        self.unjudged.add_whole(&mut gaps, self.tested, fate)?;
        Ok(gaps)
    }

    /// Judges the end that the log's header names, once the header is whole, and before any event:
    /// by these further statements too.
    pub fn begin(&mut self, header: Option<Header>, further: Further)
        ensures first { self.old.events ≡ 0 → IfSome header (λ named. (self.new.tested ≡ tested_as further named) × IsWatching self.new [] × IsTallying self.new []) }
        ensures kind { counts self.new.watchers ≡ counts self.old.watchers }
        ensures unnamed { header ≡ None → self.new ≡ self.old }
        ensures later { (self.old.events ≡ 0 → ⊥) → self.new ≡ self.old }
    {
        if self.events != 0 {
            return;
        }
        if let Some(header) = header {
            *self = Watching::new(self.alloc, Tested::of(header, further), self.is_counting());
        }
    }

    /// How much is kept of the log: the sum of the lengths of all collections that the watchers
    /// keep. The faults don't count.
    pub fn weight(&self) -> usize
        ensures exact { result ≡ in_word (watchers_weigh self.now) }
        ensures bounded { (past : List TheSeen) → IsWatching self.now past → result ≤ 4 * burden self.now.tested past }
    {
        self.watchers.weight()
    }

    /// Takes the faults out.
    pub fn take_faults(&mut self) -> Faults
        ensures { result ≡ self.old.faults }
    {
        replace(&mut self.faults, Faults::new(self.alloc))
    }

    // Takes in the next event, and finds the faults that it shows.
    //
    // Errors: `Memory` if there is no memory for a fault, or for what is kept. The faults are then
    // those of the events before it, and nothing more can be taken in.
    fn take_in(&mut self, place: Place3, note: &Note) -> Result<(), Memory>
        ensures tested { self.new.tested ≡ self.old.tested }
        ensures ok { OnOk result (TakesIn self.old self.new place note.now) }
        ensures memory { OnErr result (LeavesOut self.old self.new place note.now) }
        ensures counts { OnOk result (CountsNothing self.old self.new) }
    {
        let before = self.watchers.latest_fate();
        match self.watchers.step(place, note, &mut self.faults) {
            Ok(()) => {
                self.events = place.position;
                gather(&mut self.unjudged, &self.watchers, place, note, before);
                Ok(())
            }
            Err(Memory) => {
                self.faults.drop_decided(place.position);
                Err(Memory)
            }
        }
    }

    // The same of a bare packet, by its numbers.
    #[inline(always)]
    fn take_bare(&mut self, at: Place3, bare: Bare<'_>) -> Result<(), Memory>
        ensures tested { self.new.tested ≡ self.old.tested }
        ensures ok { OnOk result (TakesIn self.old self.new at (note_of_bare bare.entry)) }
        ensures memory { OnErr result (LeavesOut self.old self.new at (note_of_bare bare.entry)) }
        ensures counts { OnOk result (CountsNothing self.old self.new) }
    {
        match self.watchers.step_bare(at, bare, &mut self.faults) {
            Ok(()) => {
                self.events = at.position;
                Ok(())
            }
            Err(Memory) => {
                self.faults.drop_decided(at.position);
                Err(Memory)
            }
        }
    }

    // The same where places are counted. A call of its own, so that nothing of it stands where no
    // places are counted.
    #[inline(never)]
    fn take_counted(&mut self, at: Place3, bare: Bare<'_>) -> Result<(), Memory>
        ensures tested { self.new.tested ≡ self.old.tested }
        ensures ok { OnOk result (TakesIn self.old self.new at (note_of_bare bare.entry)) }
        ensures memory { OnErr result (LeavesOut self.old self.new at (note_of_bare bare.entry)) }
        ensures counts { OnOk result (CountsNothing self.old self.new) }
    {
        match self.watchers.step_counted(at, bare, &mut self.faults) {
            Ok(()) => {
                self.events = at.position;
                Ok(())
            }
            Err(Memory) => {
                self.faults.drop_decided(at.position);
                Err(Memory)
            }
        }
    }

    // The same of a packet without properties. It counts the statements on a packet's bytes too.
    #[inline(always)]
    fn count_bare(&mut self, at: Place3, bare: Bare<'_>) -> Result<(), Memory>
        ensures tested { self.new.tested ≡ self.old.tested }
        ensures ok { OnOk result (TakesIn self.old self.new at (note_of_bare bare.entry)) }
        ensures memory { OnErr result (LeavesOut self.old self.new at (note_of_bare bare.entry)) }
        ensures counts { OnOk result (counts self.new.watchers ≡ counts self.old.watchers) }
        ensures tallies { OnOk result ((entry : Entry) → IsTriedAs bare.entry.size bare.entry.fields entry → TalliesNext self.old self.new at (item_event bare.entry.direction (packet_item bare.entry.size entry))) }
    {
        self.take_counted(at, bare)?;
        self.tally.count_bare(at.position, bare);
        Ok(())
    }

    // The same of a bare PUBLISH, which may have properties.
    #[inline(always)]
    fn count_publish(
        &mut self,
        at: Place3,
        bare: Bare<'_>,
        publish: Publish<'_>,
    ) -> Result<(), Memory>
        ensures tested { self.new.tested ≡ self.old.tested }
        ensures ok { OnOk result (TakesIn self.old self.new at (note_of_bare bare.entry)) }
        ensures memory { OnErr result (LeavesOut self.old self.new at (note_of_bare bare.entry)) }
        ensures counts { OnOk result (counts self.new.watchers ≡ counts self.old.watchers) }
        ensures tallies { OnOk result (IsPublishTriedAs bare.entry publish.entry → TalliesNext self.old self.new at (item_event bare.entry.direction (packet_item bare.entry.size (view (packets.Publish publish.entry))))) }
    {
        self.take_counted(at, bare)?;
        tally_publish(&mut self.tally, at.position, bare, publish);
        Ok(())
    }

    // Takes in a packet without properties, and counts it if places are counted.
    #[inline(always)]
    fn receive_bare(&mut self, at: Place3, bare: Bare<'_>) -> Result<(), Memory>
        ensures tested { self.new.tested ≡ self.old.tested }
        ensures ok { OnOk result (TakesIn self.old self.new at (note_of_bare bare.entry)) }
        ensures memory { OnErr result (LeavesOut self.old self.new at (note_of_bare bare.entry)) }
        ensures counts { OnOk result (counts self.new.watchers ≡ counts self.old.watchers) }
        ensures tallies { OnOk result ((entry : Entry) → IsTriedAs bare.entry.size bare.entry.fields entry → TalliesNext self.old self.new at (item_event bare.entry.direction (packet_item bare.entry.size entry))) }
    {
        if self.watchers.is_counting() {
            return self.count_bare(at, bare);
        }
        self.take_bare(at, bare)
    }

    // What makes a note that is taken in is a call of its own: a note that a function makes lies in
    // memory on all ways through it.

    // Makes a note of an event, and takes it in.
    #[inline(never)]
    fn take_event(&mut self, place: Place3, event: &Event<'_>) -> Result<(), Memory>
        ensures tested { self.new.tested ≡ self.old.tested }
        ensures ok { OnOk result (TakesIn self.old self.new place (note_of (event_of event.now))) }
        ensures memory { OnErr result (LeavesOut self.old self.new place (note_of (event_of event.now))) }
        ensures counts { OnOk result (counts self.new.watchers ≡ counts self.old.watchers) }
        ensures tallies { OnOk result ((events : List Placed) → place.position ≡ length events + 1 → IsTallying self.old events → IsTallying self.new (placed_at place event.now ∷ events)) }
    {
        let Ok(note) = Note::of(self.alloc, event) else {
            return Err(Memory);
        };
        match self.take_in(place, &note) {
            Ok(()) => {
                let counting = self.watchers.is_counting();
                tally_event(&mut self.tally, counting, place, event);
                Ok(())
            }
            Err(Memory) => Err(Memory),
        }
    }

    // Makes a note of a packet, and takes it in. If places are counted, it counts the statements on
    // a packet's bytes that it puts to the test. It takes the packet by value: one that a call
    // looks at lies in memory on all ways to it.
    #[inline(never)]
    fn take_packet(
        &mut self,
        place: Place3,
        direction: Direction,
        size: u32,
        packet: Packet<'_>,
    ) -> Result<(), Memory>
        ensures tested { self.new.tested ≡ self.old.tested }
        ensures ok { OnOk result (TakesIn self.old self.new place (note_of (item_event direction (packet_item size (view packet.entry))))) }
        ensures memory { OnErr result (LeavesOut self.old self.new place (note_of (item_event direction (packet_item size (view packet.entry))))) }
        ensures counts { OnOk result (counts self.new.watchers ≡ counts self.old.watchers) }
        ensures tallies { OnOk result (TalliesNext self.old self.new place (item_event direction (packet_item size (view packet.entry)))) }
    {
        let Ok(note) = Note::of_packet(self.alloc, direction, size, &packet) else {
            return Err(Memory);
        };
        match self.take_in(place, &note) {
            Ok(()) => {
                let counting = self.watchers.is_counting();
                let at = place.position;
                tally_packet(&mut self.tally, counting, at, direction, size, &packet);
                Ok(())
            }
            Err(Memory) => Err(Memory),
        }
    }

    // The same, inlined: what is handed to `take_packet` then lies in memory on the way to it alone.
    #[inline(always)]
    fn take_other(
        &mut self,
        place: Place3,
        direction: Direction,
        size: u32,
        packet: Packet<'_>,
    ) -> Result<(), Memory>
        ensures tested { self.new.tested ≡ self.old.tested }
        ensures ok { OnOk result (TakesIn self.old self.new place (note_of (item_event direction (packet_item size (view packet.entry))))) }
        ensures memory { OnErr result (LeavesOut self.old self.new place (note_of (item_event direction (packet_item size (view packet.entry))))) }
        ensures counts { OnOk result (counts self.new.watchers ≡ counts self.old.watchers) }
        ensures tallies { OnOk result (TalliesNext self.old self.new place (item_event direction (packet_item size (view packet.entry)))) }
    {
        self.take_packet(place, direction, size, packet)
    }

    // The same of a PUBLISH.
    #[inline(always)]
    fn take_publish(
        &mut self,
        place: Place3,
        direction: Direction,
        size: u32,
        publish: Publish<'_>,
    ) -> Result<(), Memory>
        ensures tested { self.new.tested ≡ self.old.tested }
        ensures ok { OnOk result (TakesIn self.old self.new place (note_of (item_event direction (packet_item size (view (packets.Publish publish.entry)))))) }
        ensures memory { OnErr result (LeavesOut self.old self.new place (note_of (item_event direction (packet_item size (view (packets.Publish publish.entry)))))) }
        ensures counts { OnOk result (counts self.new.watchers ≡ counts self.old.watchers) }
        ensures tallies { OnOk result (TalliesNext self.old self.new place (item_event direction (packet_item size (view (packets.Publish publish.entry))))) }
    {
        self.take_packet(place, direction, size, Packet::Publish(publish))
    }

    // Takes in the next event, a packet.
    //
    // Errors: As in `take_in`.
    #[inline(always)]
    fn receive_packet(
        &mut self,
        place: Place3,
        direction: Direction,
        size: u32,
        packet: Packet<'_>,
    ) -> Result<(), Memory>
        ensures tested { self.new.tested ≡ self.old.tested }
        ensures ok { OnOk result (TakesIn self.old self.new place (note_of (item_event direction (packet_item size (view packet.entry))))) }
        ensures memory { OnErr result (LeavesOut self.old self.new place (note_of (item_event direction (packet_item size (view packet.entry))))) }
        ensures counts { OnOk result (counts self.new.watchers ≡ counts self.old.watchers) }
        ensures tallies { OnOk result (TalliesNext self.old self.new place (item_event direction (packet_item size (view packet.entry)))) }
    {
        match BareFields::of_packet(&packet) {
            Some(fields) => self.receive_bare(
                place,
                Bare {
                    direction,
                    size,
                    fields,
                },
            ),
            None => self.take_other(place, direction, size, packet),
        }
    }

    // Takes in the next event, a PUBLISH.
    //
    // Errors: As in `take_in`.
    #[inline(always)]
    fn receive_publish(
        &mut self,
        place: Place3,
        direction: Direction,
        size: u32,
        publish: Publish<'_>,
    ) -> Result<(), Memory>
        ensures tested { self.new.tested ≡ self.old.tested }
        ensures ok { OnOk result (TakesIn self.old self.new place (note_of (item_event direction (packet_item size (view (packets.Publish publish.entry)))))) }
        ensures memory { OnErr result (LeavesOut self.old self.new place (note_of (item_event direction (packet_item size (view (packets.Publish publish.entry)))))) }
        ensures counts { OnOk result (counts self.new.watchers ≡ counts self.old.watchers) }
        ensures tallies { OnOk result (TalliesNext self.old self.new place (item_event direction (packet_item size (view (packets.Publish publish.entry))))) }
    {
        if !is_bare(direction, &publish) {
            return self.take_publish(place, direction, size, publish);
        }
        let bare = Bare::of_publish(
            direction,
            size,
            publish.identifier,
            publish.qos,
            publish.duplicate,
            publish.topic,
        );
        if self.watchers.is_counting() {
            return self.count_publish(place, bare, publish);
        }
        self.take_bare(place, bare)
    }
}

// The watchers of all statements, before any event.
fn watch(alloc: Global, tested: Tested, counting: bool) -> Watchers
    ensures kind { counts result ≡ counting }
    ensures agrees { ⟦<Watchers as Watch>⟧.agrees result tested (Some Void) [] }
{
    if counting {
        return Watchers::counting(alloc, tested);
    }
    Watchers::new(alloc, tested)
}

// Takes in what is kept of an event itself, if places are counted.
fn tally_event(tally: &mut Tally, counting: bool, place: Place3, event: &Event<'_>)
    ensures { (tested : TheTested) (events : List Placed) → place.position ≡ length events + 1 → (counting ≡ true → Tallies tally.old tested events) → counting ≡ true → Tallies tally.new tested (placed_at place event.now ∷ events) }
{
    if counting {
        tally.count_event(place, event);
    }
}

// The same of a packet of this size, which went this way.
fn tally_packet(
    tally: &mut Tally,
    counting: bool,
    position: u32,
    direction: Direction,
    size: u32,
    packet: &Packet<'_>,
)
    ensures { (tested : TheTested) (p : Placed) (events : List Placed) → p.event ≡ item_event direction (packet_item size (view packet.now)) → position ≡ length events + 1 → (counting ≡ true → Tallies tally.old tested events) → counting ≡ true → Tallies tally.new tested (p ∷ events) }
{
    if counting {
        tally.count_packet(position, direction, size, packet);
    }
}

// The same of a bare PUBLISH, where places are counted: by its numbers if it has no properties, else
// by the packet itself.
#[inline(never)]
fn tally_publish(tally: &mut Tally, position: u32, bare: Bare<'_>, publish: Publish<'_>)
    ensures { (tested : TheTested) (p : Placed) (events : List Placed) → IsPublishTriedAs bare.entry publish.entry → p.event ≡ item_event bare.entry.direction (packet_item bare.entry.size (view (packets.Publish publish.entry))) → position ≡ length events + 1 → Tallies tally.old tested events → Tallies tally.new tested (p ∷ events) }
{
    if publish.properties.as_bytes().is_empty() {
        tally.count_bare(position, bare);
    } else {
        let (direction, size) = (bare.direction, bare.size);
        tally.count_packet(position, direction, size, &Packet::Publish(publish));
    }
}

// Takes in what an event leaves unjudged, if places are counted. Before it this became of the
// latest connection; the watchers have taken it in.
fn gather(
    unjudged: &mut Unjudged,
    watchers: &Watchers,
    place: Place3,
    note: &Note,
    before: Option<Fate>,
)
    ensures { (tested : TheTested) (taken : Option TheFate) (past : List TheSeen) → before ≡ latest_fate tested.role past → ⟦<Watchers as Watch>⟧.agrees watchers.now tested taken (seen_at place note.now ∷ past) → (counts watchers.now ≡ true → Gathers unjudged.old tested past) → counts watchers.now ≡ true → Gathers unjudged.new tested (seen_at place note.now ∷ past) }
{
    if watchers.is_counting() {
        unjudged.take_in(place, note, before, watchers.latest_fate());
    }
}

/// Which end is judged, and whether places are counted. Each call of `take_events` picks it.
pub trait End {
    ghost use Rattle.std.specs.Prelude.{Bool};
    ghost use Rattle.mq_rules.specs.declared.role.Tested.{Tested};

    ghost tested: { Tested };

    ghost counting: { Bool };
}

impl End for Brand {
    ghost use Rattle.std.specs.Prelude.{false};
    ghost use Rattle.mq_rules.specs.declared.role.Role.TheVariants.{Client};
    ghost use Rattle.mq_rules.specs.Rules.{none_further};

    ghost tested = { record { role = Client; releases = false; further = none_further } };

    ghost counting = { false };
}

/// A sink that judges the events that it receives.
///
/// No code uses `K`. It is there for the proofs: by it `agrees` can say which end is judged, which
/// is known before the first event, and is the same after each.
#[derive(Drop)]
pub struct Judging<K> {
    /// What is kept of them.
    pub watching: Watching,
    end: PhantomData<K>,
}

impl<K> Judging<K> {
    /// Judges by these watchers.
    pub fn new(watching: Watching) -> Self
        ensures { result.watching ≡ watching }
    {
        Judging {
            watching,
            end: PhantomData,
        }
    }
}

impl<K: End> Sink for Judging<K> {
    ghost use Rattle.std.specs.Prelude.{◌≡◌, map};
    ghost use Rattle.mq_log.specs.declared.refusal.Refusal.TheVariants as refusals;
    ghost use Rattle.mq_rules.specs.Notes.{seen as seen_of};
    ghost use Rattle.mq_judge.specs.Watching.{IsFound, IsJudging};

    ghost agrees = { λ sink received. IsJudging K.tested K.counting sink.watching received };

    // There was no memory, and the faults are those of the earlier events.
    ghost refuses = { λ sink received refusal. (refusal ≡ refusals.Memory 0) × (sink.watching.tested ≡ K.tested) × IsFound sink.watching (map seen_of received) };

    #[inline(always)]
    fn event(&mut self, place: Place3, event: Event<'_>) -> Result<(), Refusal> {
        match self.watching.take_event(place, &event) {
            Ok(()) => Ok(()),
            Err(Memory) => Err(Refusal::Memory(0)),
        }
    }

    #[inline(always)]
    fn packet(
        &mut self,
        place: Place3,
        direction: Direction,
        size: u32,
        packet: Packet<'_>,
    ) -> Result<(), Refusal> {
        match self.watching.receive_packet(place, direction, size, packet) {
            Ok(()) => Ok(()),
            Err(Memory) => Err(Refusal::Memory(0)),
        }
    }

    #[inline(always)]
    fn publish(
        &mut self,
        place: Place3,
        direction: Direction,
        size: u32,
        publish: Publish<'_>,
    ) -> Result<(), Refusal> {
        match self
            .watching
            .receive_publish(place, direction, size, publish)
        {
            Ok(()) => Ok(()),
            Err(Memory) => Err(Refusal::Memory(0)),
        }
    }
}
