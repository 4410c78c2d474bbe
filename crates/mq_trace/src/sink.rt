//! The sink, which receives the events of a log.

ghost use Rattle.std.specs.Prelude.{List, ◌∷◌, ◌≡◌, OnOk, IfErr, unwrap_or};
ghost use Rattle.mq_packet.specs.Sizes.{size_with, remaining_length};
ghost use Rattle.mq_packet.specs.declared.packet.Packet.TheVariants as packets;
ghost use Rattle.mq_log.specs.Events.{Placed};
ghost use Rattle.mq_log.specs.Reception.{AreEvents, placed_at, packet_event_at};

use mq_log::{Direction, Event, Item, Place3, Refusal, item_event};
use mq_packet::{Packet, Publish};

/// Receives the events of a log, one after another.
///
/// A sink that can't go on returns a refusal, and the log is refused with it. No condition on logs
/// is the sink's to check, so what it lacks is memory, or another means: `Refusal::Memory(0)` says
/// so. It is at offset 0 because a sink doesn't know the bytes of the log; the tracer moves it to
/// the byte that completed the event.
///
/// # Examples
///
/// A sink that counts the events:
///
/// ```
/// #[derive(Drop)]
/// struct Count(u32);
///
/// impl Sink for Count {
///     ghost use Rattle.std.specs.Prelude.{⊤};
///
///     ghost agrees = { λ _ _. ⊤ };
///
///     ghost refuses = { λ _ _ _. ⊤ };
///
///     fn event(&mut self, _: Place3, _: Event<'_>) -> Result<(), Refusal> {
///         self.0 = self.0.checked_add(1).ok_or(Refusal::Memory(0))?;
///         Ok(())
///     }
/// }
/// ```
pub trait Sink {
    ghost use Rattle.mq_log.specs.declared.refusal.Refusal.{Refusal};

    // The sink has received these events, the newest first.
    ghost agrees: { Self → List Placed → Type 0 };
    // The sink had received these events, the newest first, and has refused the next one with this
    // refusal.
    ghost refuses: { Self → List Placed → Refusal → Type 0 };

    /// Receives the next event, which has this place in the log.
    ///
    /// # Errors
    ///
    /// The sink's own refusal. Its byte doesn't matter: the tracer replaces it by that of the byte
    /// that completed the event. The sink receives no further events.
    fn event(&mut self, place: Place3, event: Event<'_>) -> Result<(), Refusal>
        ensures receives { (earlier : List Placed) → agrees self.old earlier → AreEvents (placed_at place event.entry ∷ earlier)
            → OnOk result (agrees self.new (placed_at place event.entry ∷ earlier)) }
        ensures refused { (earlier : List Placed) → agrees self.old earlier → AreEvents (placed_at place event.entry ∷ earlier)
            → IfErr result (λ refusal. refuses self.new earlier refusal) };

    /// Receives the next event, a packet of `size` bytes in this direction. By default it calls
    /// `event`; a sink may have a quicker way, since an event that it looks into lies in memory,
    /// and its packet's size has to be found again.
    ///
    /// # Errors
    ///
    /// As in `event`.
    #[inline(always)]
    fn packet(
        &mut self,
        place: Place3,
        direction: Direction,
        size: u32,
        packet: Packet<'_>,
    ) -> Result<(), Refusal>
        requires { size ≡ unwrap_or (size_with (remaining_length packet)) 0 }
        ensures receives { (earlier : List Placed) → agrees self.old earlier → AreEvents (packet_event_at place direction packet.entry ∷ earlier)
            → OnOk result (agrees self.new (packet_event_at place direction packet.entry ∷ earlier)) }
        ensures refused { (earlier : List Placed) → agrees self.old earlier → AreEvents (packet_event_at place direction packet.entry ∷ earlier)
            → IfErr result (λ refusal. refuses self.new earlier refusal) }
    {
        let _ = size;
        self.event(place, item_event(direction, Item::Packet(packet)))
    }

    /// Receives the next event, a PUBLISH of `size` bytes in this direction. By default it calls
    /// `packet`; a sink may have a quicker way, since most packets of a log are PUBLISHes, and a
    /// packet is several times as large as a PUBLISH.
    ///
    /// # Errors
    ///
    /// As in `event`.
    #[inline(always)]
    fn publish(
        &mut self,
        place: Place3,
        direction: Direction,
        size: u32,
        publish: Publish<'_>,
    ) -> Result<(), Refusal>
        requires { size ≡ unwrap_or (size_with (remaining_length (packets.Publish publish))) 0 }
        ensures receives { (earlier : List Placed) → agrees self.old earlier → AreEvents (packet_event_at place direction (packets.Publish publish.entry) ∷ earlier)
            → OnOk result (agrees self.new (packet_event_at place direction (packets.Publish publish.entry) ∷ earlier)) }
        ensures refused { (earlier : List Placed) → agrees self.old earlier → AreEvents (packet_event_at place direction (packets.Publish publish.entry) ∷ earlier)
            → IfErr result (λ refusal. refuses self.new earlier refusal) }
    {
        self.packet(place, direction, size, Packet::Publish(publish))
    }
}

/// A sink that does nothing with what it receives.
impl Sink for () {
    ghost agrees = { λ _ _. Unit {0} };

    ghost refuses = { λ _ _ _. ⊥ };

    fn event(&mut self, _: Place3, _: Event<'_>) -> Result<(), Refusal> {
        Ok(())
    }
}
