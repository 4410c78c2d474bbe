//! What is kept of the events themselves, where places are counted: a note doesn't keep it.
ghost use Rattle.std.specs.Prelude.{◌≡◌, ◌∷◌, ◌+◌, ◌++◌, [], List, None, Some, length, OnOk};
ghost use Rattle.mq_packet.specs.Entries.{Entry};
ghost use Rattle.mq_packet.specs.Reading.{view};
ghost use Rattle.mq_log.specs.Events.{Placed, packet as packet_item};
ghost use Rattle.mq_log.specs.Flows.{item_event};
ghost use Rattle.mq_log.specs.Reception.{event_of, packets_of, placed_at};
ghost use Rattle.mq_rules.specs.Parts.{IsTriedAs};
ghost use Rattle.mq_rules.specs.Trials.{places_bytes};
ghost use Rattle.mq_rules.specs.declared.role.Tested.{Tested as TheTested};
ghost use Rattle.mq_report.specs.declared.report.unjudged.Gap.{Gap as TheGap};
ghost use Rattle.mq_judge.specs.Unjudged.{dropped_in, unfinished_of, with_dropped, with_unfinished};
ghost use Rattle.mq_judge.specs.Gathering.{IsShown, Tallies};

use super::shown::{Shown, add};
use mq_connections::ByteTally;
use mq_log::{Direction, Event, Place3, UnfinishedPackets};
use mq_packet::Packet;
use mq_report::{Begun, Gap};
use mq_rules::{Bare, Memory, Rule};
use std::alloc::Global;

/// How often the statements on a packet's bytes were put to the test, and which packets were left
/// unfinished.
#[derive(Drop)]
pub struct Tally {
    bytes: ByteTally,
    /// What CLOSEs dropped.
    dropped: Shown,
}

impl Tally {
    /// Before any event.
    pub fn new(alloc: Global) -> Self
        ensures { (tested : TheTested) → Tallies result tested [] }
    {
        Tally {
            bytes: ByteTally::new(),
            dropped: Shown::new(alloc),
        }
    }

    /// How many places a statement has: 0 if it isn't one on a packet's bytes.
    pub fn places(&self, rule: Rule) -> u32
        ensures { (tested : TheTested) (events : List Placed) → Tallies self.now tested events → result ≡ places_bytes tested events rule }
    {
        self.bytes.places(rule)
    }

    /// Counts the statements that a packet of `size` bytes puts to the test, which went this way.
    #[inline(always)]
    pub fn count_packet(
        &mut self,
        position: u32,
        direction: Direction,
        size: u32,
        packet: &Packet<'_>,
    )
        ensures { (tested : TheTested) (p : Placed) (events : List Placed) → p.event ≡ item_event direction (packet_item size (view packet.now)) → position ≡ length events + 1 → Tallies self.old tested events → Tallies self.new tested (p ∷ events) }
    {
        self.bytes.count_packet(position, direction, size, packet);
    }

    /// The same of a packet without properties, by its numbers.
    #[inline(always)]
    pub fn count_bare(&mut self, position: u32, bare: Bare<'_>)
        ensures { (tested : TheTested) (p : Placed) (entry : Entry) (events : List Placed) → p.event ≡ item_event bare.entry.direction (packet_item bare.entry.size entry) → IsTriedAs bare.entry.size bare.entry.fields entry → position ≡ length events + 1 → Tallies self.old tested events → Tallies self.new tested (p ∷ events) }
    {
        self.bytes.count_bare(position, bare);
    }

    /// Counts the statements that an event puts to the test, and keeps what it drops.
    pub fn count_event(&mut self, place: Place3, event: &Event<'_>)
        ensures { (tested : TheTested) (events : List Placed) → place.position ≡ length events + 1 → Tallies self.old tested events → Tallies self.new tested (placed_at place event.now ∷ events) }
    {
        self.bytes.count_event(place.position, event);
        keep_dropped(&mut self.dropped, place, event);
    }

    /// Adds what CLOSEs dropped to these gaps, and then what the log's end leaves unfinished.
    ///
    /// # Errors
    ///
    /// `Memory` if there is no memory for it, or there was none when a CLOSE dropped it.
    pub fn add_to(&self, gaps: &mut Vec<Gap>, left: &UnfinishedPackets<'_>) -> Result<(), Memory>
        ensures { (tested : TheTested) (events : List Placed) → Tallies self.now tested events → OnOk result (gaps.new.items ≡ with_unfinished (gaps.old.items ++ dropped_in events) None (packets_of left.now)) }
    {
        self.dropped.add_to(gaps)?;
        add(gaps, unfinished(Direction::Sent, left.sent, None))?;
        add(gaps, unfinished(Direction::Recv, left.received, None))?;
        Ok(())
    }
}

// Keeps what an event drops: a CLOSE the packets that it leaves unfinished.
fn keep_dropped(dropped: &mut Shown, place: Place3, event: &Event<'_>)
    ensures { (gaps : List TheGap) → IsShown dropped.old gaps → IsShown dropped.new (with_dropped gaps place (event_of event.now)) }
{
    match event {
        Event::Close { unfinished } => keep_unfinished(dropped, place, unfinished),
        Event::Open => {}
        Event::Rest => {}
        Event::Release(_) => {}
        Event::Sent(_) => {}
        Event::Recv(_) => {}
    }
}

// Keeps the packets that the CLOSE at this place leaves unfinished.
fn keep_unfinished(dropped: &mut Shown, place: Place3, packets: &UnfinishedPackets<'_>)
    ensures { (gaps : List TheGap) → IsShown dropped.old gaps → IsShown dropped.new (with_unfinished gaps (Some place) (packets_of packets.now)) }
{
    dropped.keep(unfinished(Direction::Sent, packets.sent, Some(place)));
    dropped.keep(unfinished(Direction::Recv, packets.received, Some(place)));
}

// The packet that a direction has begun, if it has: the CLOSE at this place drops its bytes, or the
// log's end does.
fn unfinished(direction: Direction, bytes: &[u8], place: Option<Place3>) -> Option<Gap>
    ensures { result ≡ unfinished_of direction place bytes.now }
{
    match bytes.split_first() {
        Some((first, _)) => {
            let begun = Begun {
                first: *first,
                bytes: bytes.len(),
            };
            Some(Gap::Unfinished(direction, begun, place))
        }
        None => None,
    }
}
