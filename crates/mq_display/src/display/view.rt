//! What is shown of an event: its line, or more.
ghost use Rattle.std.specs.Prelude.{◌≡◌, ◌+◌, ◌<◌, ◌≤◌, ◌∷◌, ◌++◌, ℕ, Bool, List, Option, IfErr, OnOk, length, unwrap_or};
ghost use Rattle.mq_packet.specs.Sizes.{size_with, remaining_length};
ghost use Rattle.mq_display.specs.Outgoing.{Carries, Puts};
ghost use Rattle.mq_display.specs.Display.{line_with_bytes, direction_word, event_line, event_text, event_words, long_line, moment_words, packet_line, place_text};
ghost use Rattle.mq_display.specs.ItemText.{with_spaces};
ghost use Rattle.mq_display.specs.Views.{IsStateAfter, text_by};
ghost use Rattle.mq_log.specs.Events.{Placed};
ghost use Rattle.mq_log.specs.Reception.{AreEvents, event_of, packet_event_at, placed_at};

use super::super::item::{put_item, put_packet};
use super::super::packet_summary::PacketSummary;
use super::annotated::Annotated;
use super::details::{put_broken_details, put_details};
use super::outgoing::Outgoing;
use mq_log::{Direction, Event, Item, Place3};
use mq_packet::Packet;
use mq_report::Lines;
use std::fmt;
use std::io::Write;

/// What is shown of each event.
#[derive(Clone, Copy)]
pub enum View<'a> {
    /// Its line.
    Brief,
    /// Its long line.
    Long,
    /// Its line and the faults at it, if it is near to a fault.
    Annotated(Annotated<'a>),
}

impl View<'_> {
    /// Appends what is shown of the next event, which has this place, in a log whose records have
    /// moments if `timed` is true.
    #[inline(always)]
    pub fn put<W: Write>(
        &mut self,
        out: &mut Outgoing<'_, W>,
        timed: bool,
        place: Place3,
        event: &Event<'_>,
    )
        ensures text { (given : Bool) → text_by given self.new ≡ text_by given self.old }
        ensures writer { out.new.writer.ghost_name ≡ out.old.writer.ghost_name }
        ensures stands { (earlier : List Placed) → AreEvents (placed_at place event.now ∷ earlier) → IsStateAfter earlier self.old → IsStateAfter (placed_at place event.now ∷ earlier) self.new }
        ensures puts { (held : Option (List ℕ)) (earlier : List Placed) → AreEvents (placed_at place event.now ∷ earlier) → IsStateAfter earlier self.old
            → Carries W.contents held (text_by timed self.old earlier) out.old → Carries W.contents held (text_by timed self.old (placed_at place event.now ∷ earlier)) out.new }
    {
        match self {
            View::Brief => put_event_line(out, timed, place, event),
            View::Long => put_long_line(out, timed, place, event),
            View::Annotated(annotated) => annotated.put(out, timed, place, event),
        }
    }

    /// Appends what is shown of the next event, which is a packet of `size` bytes in this direction
    /// and has this place. Its line is made from what it says of the packet, so that the packet
    /// needn't lie in memory.
    #[inline(always)]
    pub fn put_packet<W: Write>(
        &mut self,
        out: &mut Outgoing<'_, W>,
        timed: bool,
        place: Place3,
        direction: Direction,
        size: u32,
        packet: Packet<'_>,
    )
        requires { size ≡ unwrap_or (size_with (remaining_length packet)) 0 }
        ensures text { (given : Bool) → text_by given self.new ≡ text_by given self.old }
        ensures writer { out.new.writer.ghost_name ≡ out.old.writer.ghost_name }
        ensures stands { (earlier : List Placed) → AreEvents (packet_event_at place direction packet.entry ∷ earlier) → IsStateAfter earlier self.old → IsStateAfter (packet_event_at place direction packet.entry ∷ earlier) self.new }
        ensures puts { (held : Option (List ℕ)) (earlier : List Placed) → AreEvents (packet_event_at place direction packet.entry ∷ earlier) → IsStateAfter earlier self.old
            → Carries W.contents held (text_by timed self.old earlier) out.old → Carries W.contents held (text_by timed self.old (packet_event_at place direction packet.entry ∷ earlier)) out.new }
    {
        match self {
            View::Brief => {
                let summary = PacketSummary::of(&packet);
                put_packet_line(out, timed, place, direction, summary, size);
            }
            _ => self.put_whole_packet(out, timed, place, direction, packet),
        }
    }

    // Takes in a packet by any view. It stays apart, and takes the packet by value: one that
    // another function looks at lies in memory.
    #[inline(never)]
    fn put_whole_packet<W: Write>(
        &mut self,
        out: &mut Outgoing<'_, W>,
        timed: bool,
        place: Place3,
        direction: Direction,
        packet: Packet<'_>,
    )
        ensures text { (given : Bool) → text_by given self.new ≡ text_by given self.old }
        ensures writer { out.new.writer.ghost_name ≡ out.old.writer.ghost_name }
        ensures stands { (earlier : List Placed) → AreEvents (packet_event_at place direction packet.entry ∷ earlier) → IsStateAfter earlier self.old → IsStateAfter (packet_event_at place direction packet.entry ∷ earlier) self.new }
        ensures puts { (held : Option (List ℕ)) (earlier : List Placed) → AreEvents (packet_event_at place direction packet.entry ∷ earlier) → IsStateAfter earlier self.old
            → Carries W.contents held (text_by timed self.old earlier) out.old → Carries W.contents held (text_by timed self.old (packet_event_at place direction packet.entry ∷ earlier)) out.new }
    {
        let item = Item::Packet(packet);
        match direction {
            Direction::Sent => self.put(out, timed, place, &Event::Sent(item)),
            Direction::Recv => self.put(out, timed, place, &Event::Recv(item)),
        }
    }
}

// Appends the line of a packet of `size` bytes in this direction, at its place.
#[inline(always)]
fn put_packet_line<W: Write>(
    out: &mut Outgoing<'_, W>,
    timed: bool,
    place: Place3,
    direction: Direction,
    packet: PacketSummary,
    size: u32,
)
    ensures { Puts W.contents out.old (packet_line timed place direction packet size) out.new }
{
    out.make_room();
    put_summary_line(&mut out.lines, timed, place, direction, packet, size);
}

// Appends that line to those that wait, for which there is room.
#[inline(always)]
fn put_summary_line(
    lines: &mut Lines,
    timed: bool,
    place: Place3,
    direction: Direction,
    packet: PacketSummary,
    size: u32,
)
    requires { length lines.old + 160 ≤ 8192 }
    ensures { lines.new ≡ lines.old ++ packet_line timed place direction packet size }
{
    try_put_summary_line(lines, timed, place, direction, packet, size).unwrap()
}

// Appends that line to those that wait, if there is room for it.
#[inline(always)]
fn try_put_summary_line(
    lines: &mut Lines,
    timed: bool,
    place: Place3,
    direction: Direction,
    packet: PacketSummary,
    size: u32,
) -> fmt::Result
    ensures puts { OnOk result (lines.new ≡ lines.old ++ packet_line timed place direction packet size) }
    ensures full { IfErr result (λ _. 8192 < length lines.old + 160) }
{
    put_place(lines, timed, place)?;
    lines.put(" ")?;
    lines.put(direction_word(direction))?;
    lines.put(" ")?;
    put_packet(lines, packet, size)?;
    lines.put("\n")
}

// The word for a direction.
#[inline(always)]
fn direction_word(direction: Direction) -> &'static str
    ensures word { result.now ≡ direction_word direction }
    ensures short { length result.now ≡ 4 }
{
    match direction {
        Direction::Sent => "SENT",
        Direction::Recv => "RECV",
    }
}

// Appends the line of an event at its place.
#[inline(always)]
fn put_event_line<W: Write>(
    out: &mut Outgoing<'_, W>,
    timed: bool,
    place: Place3,
    event: &Event<'_>,
)
    ensures { Puts W.contents out.old (event_line timed (placed_at place event.now)) out.new }
{
    out.make_room();
    put_line(&mut out.lines, timed, place, event);
}

/// Appends the long line of an event at its place.
#[inline(never)]
pub fn put_long_line<W: Write>(
    out: &mut Outgoing<'_, W>,
    timed: bool,
    place: Place3,
    event: &Event<'_>,
)
    ensures { Puts W.contents out.old (long_line timed (placed_at place event.now)) out.new }
{
    put_event_words(out, timed, place, event);
    put_details(out, event);
    out.put("\n");
}

/// Appends the line of an event at its place, with the type and the bytes of its packet if that
/// breaks a rule.
pub fn put_line_with_bytes<W: Write>(
    out: &mut Outgoing<'_, W>,
    timed: bool,
    place: Place3,
    event: &Event<'_>,
)
    ensures { Puts W.contents out.old (line_with_bytes timed (placed_at place event.now)) out.new }
{
    put_event_words(out, timed, place, event);
    put_broken_details(out, event);
    out.put("\n");
}

// Appends the words of an event at its place.
fn put_event_words<W: Write>(
    out: &mut Outgoing<'_, W>,
    timed: bool,
    place: Place3,
    event: &Event<'_>,
)
    ensures { Puts W.contents out.old (event_words timed (placed_at place event.now)) out.new }
{
    out.make_room();
    put_words(&mut out.lines, timed, place, event);
}

// Appends the line of an event at its place to those that wait, for which there is room.
#[inline(always)]
fn put_line(lines: &mut Lines, timed: bool, place: Place3, event: &Event<'_>)
    requires { length lines.old + 160 ≤ 8192 }
    ensures { lines.new ≡ lines.old ++ event_line timed (placed_at place event.now) }
{
    try_put_line(lines, timed, place, event).unwrap()
}

// Appends the line of an event at its place to those that wait, if there is room for it.
#[inline(always)]
fn try_put_line(lines: &mut Lines, timed: bool, place: Place3, event: &Event<'_>) -> fmt::Result
    ensures puts { OnOk result (lines.new ≡ lines.old ++ event_line timed (placed_at place event.now)) }
    ensures full { IfErr result (λ _. 8192 < length lines.old + 160) }
{
    try_put_words(lines, timed, place, event)?;
    lines.put("\n")
}

// Appends the words of an event at its place to what waits, for which there is room.
fn put_words(lines: &mut Lines, timed: bool, place: Place3, event: &Event<'_>)
    requires { length lines.old + 160 ≤ 8192 }
    ensures { lines.new ≡ lines.old ++ event_words timed (placed_at place event.now) }
{
    try_put_words(lines, timed, place, event).unwrap()
}

// Appends the words of an event at its place to what waits, if there is room for them.
#[inline(always)]
fn try_put_words(lines: &mut Lines, timed: bool, place: Place3, event: &Event<'_>) -> fmt::Result
    ensures puts { OnOk result (lines.new ≡ lines.old ++ event_words timed (placed_at place event.now)) }
    ensures short { OnOk result (length lines.new ≤ length lines.old + 159) }
    ensures full { IfErr result (λ _. 8192 < length lines.old + 159) }
{
    put_place(lines, timed, place)?;
    put_event(lines, event)
}

// Appends the words on a place to what waits, if there is room for them.
#[inline(always)]
fn put_place(lines: &mut Lines, timed: bool, place: Place3) -> fmt::Result
    ensures puts { OnOk result (lines.new ≡ lines.old ++ place_text timed place) }
    ensures short { OnOk result (length lines.new ≤ length lines.old + 56) }
    ensures full { IfErr result (λ _. 8192 < length lines.old + 56) }
{
    lines.put_number(place.position)?;
    lines.put(" record ")?;
    lines.put_number(place.record_no)?;
    put_moment(lines, timed, place.moment)
}

// Appends the words on a record's moment to what waits, each after a space, if the log's records
// have moments.
#[inline(always)]
fn put_moment(lines: &mut Lines, timed: bool, moment: u64) -> fmt::Result
    ensures puts { OnOk result (lines.new ≡ lines.old ++ with_spaces (moment_words timed moment)) }
    ensures short { OnOk result (length (with_spaces (moment_words timed moment)) ≤ 28) }
    ensures full { IfErr result (λ _. 8192 < length lines.old + 28) }
{
    if !timed {
        return Ok(());
    }
    lines.put(" moment ")?;
    lines.put_long_number(moment)
}

// Appends a space and an event's text to the waiting lines.
#[inline(always)]
fn put_event(lines: &mut Lines, event: &Event<'_>) -> fmt::Result
    ensures puts { OnOk result (lines.new ≡ lines.old ++ 32 ∷ event_text (event_of event.now)) }
    ensures short { OnOk result (length (event_text (event_of event.now)) ≤ 76) }
    ensures full { IfErr result (λ _. 8192 < length lines.old + 77) }
{
    match event {
        Event::Open => lines.put(" OPEN"),
        Event::Close { .. } => lines.put(" CLOSE"),
        Event::Rest => lines.put(" REST"),
        Event::Release(identifier) => {
            lines.put(" RELEASE ")?;
            lines.put_number(u32::from(*identifier))
        }
        Event::Sent(item) => {
            lines.put(" SENT ")?;
            put_item(lines, item)
        }
        Event::Recv(item) => {
            lines.put(" RECV ")?;
            put_item(lines, item)
        }
    }
}
