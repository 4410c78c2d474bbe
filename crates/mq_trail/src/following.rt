//! A sink that drives a watcher over the events of a log.
ghost use Rattle.std.specs.Prelude.{◌≡◌, OnOk};
ghost use Rattle.mq_packet.specs.Reading.{view};
ghost use Rattle.mq_packet.specs.declared.packet.Packet.TheVariants as packets;
ghost use Rattle.mq_log.specs.Events.{packet as packet_item};
ghost use Rattle.mq_log.specs.Flows.{item_event};
ghost use Rattle.mq_log.specs.Reception.{event_of};
ghost use Rattle.mq_rules.specs.Notes.{note_of, note_of_bare};
ghost use Rattle.mq_trail.specs.Following.{TakesIn};

use mq_log::{Direction, Event, Place3, Refusal};
use mq_packet::{Packet, Publish};
use mq_rules::{Bare, BareFields, Both, Brisk, Faults, Memory, Note, is_bare};
use mq_trace::Sink;
use std::alloc::Global;
use std::marker::{Brand, PhantomData};

/// A watcher that takes in any event that may follow the events before it.
pub trait Follower: Brisk {
    ghost use Rattle.std.specs.Prelude.{List, Option};
    ghost use Rattle.mq_rules.specs.declared.role.Tested.{Tested};
    ghost use Rattle.mq_rules.specs.declared.fate.Fate.{Fate};
    ghost use Rattle.mq_rules.specs.declared.note.Seen.{Seen};
    ghost use Rattle.mq_rules.specs.Connections.{IsOnConnection};

    /// It takes in an event that comes on an open connection, or needs none.
    ghost takes_any: { (tested : Tested) (taken : Option Fate) (e : Seen) (past : List Seen) → IsOnConnection e past → Self.takes tested taken e past };
}

impl<A: Follower, B: Follower> Follower for Both<A, B> {
    ghost takes_any = { λ tested taken e past on. (A.takes_any tested taken e past on, B.takes_any tested taken e past on) };
}

/// Which end is tested. Each call of `follow_as` picks it.
pub trait Watched {
    ghost use Rattle.mq_rules.specs.declared.role.Tested.{Tested};

    ghost tested: { Tested };
}

impl Watched for Brand {
    ghost use Rattle.std.specs.Prelude.{false};
    ghost use Rattle.mq_rules.specs.declared.role.Role.TheVariants.{Client};
    ghost use Rattle.mq_rules.specs.Rules.{none_further};

    ghost tested = { record { role = Client; releases = false; further = none_further } };
}

/// A sink that drives a watcher, and drops the faults that it finds.
///
/// It refuses an event if there is no memory for it, or for what the watcher keeps.
///
/// No code uses `K`. It is there for the proofs: by it `agrees` can say which end is tested.
#[derive(Drop)]
pub struct Following<W, K> {
    alloc: Global,
    watcher: W,
    end: PhantomData<K>,
}

impl<W, K> Following<W, K> {
    /// Drives this watcher.
    pub fn new(alloc: Global, watcher: W) -> Self
        ensures { result.watcher ≡ watcher }
    {
        Following {
            alloc,
            watcher,
            end: PhantomData,
        }
    }

    /// The watcher, which takes in no more.
    pub fn into_watcher(self) -> W
        ensures { result ≡ self.watcher }
    {
        let Following {
            alloc: _,
            watcher,
            end: _,
        } = self;
        watcher
    }
}

impl<W: Follower, K> Following<W, K> {
    // Takes in the note of an event.
    #[inline(always)]
    fn take_note(&mut self, place: Place3, note: &Note) -> Result<(), Memory>
        ensures { OnOk result (TakesIn W.agrees self.old.watcher self.new.watcher place note.now) }
    {
        let mut faults = Faults::new(self.alloc);
        self.watcher.step(place, note, &mut faults)?;
        Ok(())
    }

    // Takes in a bare packet, by its numbers.
    #[inline(always)]
    fn take_bare(&mut self, place: Place3, bare: Bare<'_>) -> Result<(), Memory>
        ensures { OnOk result (TakesIn W.agrees self.old.watcher self.new.watcher place (note_of_bare bare.entry)) }
    {
        let mut faults = Faults::new(self.alloc);
        self.watcher.step_bare(place, bare, &mut faults)?;
        Ok(())
    }

    // What makes a note is a call of its own: a note that a function makes lies in memory on all
    // ways through it.

    // Makes a note of an event, and takes it in.
    #[inline(never)]
    fn take_event(&mut self, place: Place3, event: &Event<'_>) -> Result<(), Memory>
        ensures { OnOk result (TakesIn W.agrees self.old.watcher self.new.watcher place (note_of (event_of event.now))) }
    {
        let note = Note::of(self.alloc, event)?;
        self.take_note(place, &note)?;
        Ok(())
    }

    // The same of a packet of `size` bytes in this direction, without an event that is made of it.
    #[inline(never)]
    fn take_packet(
        &mut self,
        place: Place3,
        direction: Direction,
        size: u32,
        packet: Packet<'_>,
    ) -> Result<(), Memory>
        ensures { OnOk result (TakesIn W.agrees self.old.watcher self.new.watcher place (note_of (item_event direction (packet_item size (view packet.entry))))) }
    {
        let note = Note::of_packet(self.alloc, direction, size, &packet)?;
        self.take_note(place, &note)?;
        Ok(())
    }

    // The same of a PUBLISH.
    #[inline(never)]
    fn take_publish(
        &mut self,
        place: Place3,
        direction: Direction,
        size: u32,
        publish: Publish<'_>,
    ) -> Result<(), Memory>
        ensures { OnOk result (TakesIn W.agrees self.old.watcher self.new.watcher place (note_of (item_event direction (packet_item size (view (packets.Publish publish.entry)))))) }
    {
        self.take_packet(place, direction, size, Packet::Publish(publish))
    }

    // Takes in the next event, a packet.
    #[inline(always)]
    fn receive_packet(
        &mut self,
        place: Place3,
        direction: Direction,
        size: u32,
        packet: Packet<'_>,
    ) -> Result<(), Memory>
        ensures { OnOk result (TakesIn W.agrees self.old.watcher self.new.watcher place (note_of (item_event direction (packet_item size (view packet.entry))))) }
    {
        match BareFields::of_packet(&packet) {
            Some(fields) => self.take_bare(
                place,
                Bare {
                    direction,
                    size,
                    fields,
                },
            ),
            None => self.take_packet(place, direction, size, packet),
        }
    }

    // Takes in the next event, a PUBLISH.
    #[inline(always)]
    fn receive_publish(
        &mut self,
        place: Place3,
        direction: Direction,
        size: u32,
        publish: Publish<'_>,
    ) -> Result<(), Memory>
        ensures { OnOk result (TakesIn W.agrees self.old.watcher self.new.watcher place (note_of (item_event direction (packet_item size (view (packets.Publish publish.entry)))))) }
    {
        if !is_bare(direction, &publish) {
            return self.take_publish(place, direction, size, publish);
        }
        let bare = Bare::of_publish(
            direction,
            size,
            publish.identifier,
            publish.qos,
            publish.duplicate,
            publish.topic,
        );
        self.take_bare(place, bare)
    }
}

impl<W: Follower, K: Watched> Sink for Following<W, K> {
    ghost use Rattle.std.specs.Prelude.{◌≡◌, map};
    ghost use Rattle.mq_log.specs.declared.refusal.Refusal.TheVariants as refusals;
    ghost use Rattle.mq_rules.specs.Notes.{seen as seen_of};
    ghost use Rattle.mq_trail.specs.Following.{HasFollowed};

    ghost agrees = { λ sink received. HasFollowed W.agrees K.tested sink.watcher (map seen_of received) };

    ghost refuses = { λ sink received refusal. refusal ≡ refusals.Memory 0 };

    fn event(&mut self, place: Place3, event: Event<'_>) -> Result<(), Refusal> {
        match self.take_event(place, &event) {
            Ok(()) => Ok(()),
            Err(Memory) => Err(Refusal::Memory(0)),
        }
    }

    #[inline(always)]
    fn packet(
        &mut self,
        place: Place3,
        direction: Direction,
        size: u32,
        packet: Packet<'_>,
    ) -> Result<(), Refusal> {
        let Ok(()) = self.receive_packet(place, direction, size, packet) else {
            return Err(Refusal::Memory(0));
        };
        Ok(())
    }

    #[inline(always)]
    fn publish(
        &mut self,
        place: Place3,
        direction: Direction,
        size: u32,
        publish: Publish<'_>,
    ) -> Result<(), Refusal> {
        let Ok(()) = self.receive_publish(place, direction, size, publish) else {
            return Err(Refusal::Memory(0));
        };
        Ok(())
    }
}
