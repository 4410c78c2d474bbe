//! Shows the events of a log from a reader: a line for each, short or long, with or without the
//! faults at them.
ghost use Rattle.std.specs.Prelude.{◌≡◌, Bool, true, false, IfSome, OnOk, IfErr, [], List, Option, length, ℕ};
ghost use Rattle.std.specs.FinMap as map;
ghost use Rattle.mq_report.specs.Stopping.{default_limit};
ghost use Rattle.mq_display.specs.Display.{Annotation, Shows, annotated, is_timed, short_lines_of, long_lines_of};
ghost use Rattle.mq_display.specs.Views.{IsStateAfter, is_timed_if_known, text_by};
ghost use Rattle.mq_log.specs.Refusals.{is_cut_short};
ghost use Rattle.mq_trace.specs.Tracing.{IsTracedTo};
ghost use Rattle.mq_log.specs.declared.refusal.Refusal.TheVariants as refusals;

pub mod annotated;
pub mod because;
mod calendar;
pub mod details;
pub mod outgoing;
mod view;

use self::annotated::{Annotated, Extent, left_at_first};
use self::outgoing::Outgoing;
use self::view::View;
use mq_log::{Direction, Event, Place3, Refusal};
use mq_packet::Packet;
use mq_report::{DEFAULT_LIMIT, RunFault, feed_log};
use mq_rules::{Evidence, Faults, Role};
use mq_trace::{Feed, Sink, Tracer};
use std::alloc::Global;
use std::io::{Read, Write};
use std::marker::{Brand, PhantomData};

/// Which `Outgoing` to which writer is used, what the writer held at first, by what text events are
/// shown, and whether the log is foreseen to be timed. Each call of `show_all` picks them.
trait Given {
    ghost use Rattle.std.specs.Prelude.{ℕ, Bool, List, Option};
    ghost use Rattle.mq_log.specs.Events.{Placed};

    ghost direction: { ℕ };

    ghost name: { ℕ };

    ghost held: { Option (List ℕ) };

    ghost text: { List Placed → List ℕ };

    ghost timed: { Bool };
}

impl Given for Brand {
    ghost use Rattle.std.specs.Prelude.{None, [], false};

    ghost direction = { 0 };

    ghost name = { 0 };

    ghost held = { None };

    ghost text = { λ _. [] };

    ghost timed = { false };
}

/// A sink that is told, once the log's header is whole, whether its records have moments; and that
/// may fail between two pieces.
trait Told: Sink {
    ghost use Rattle.std.specs.Prelude.{◌≡◌, Bool, true, false, List, OnOk, IfErr};
    ghost use Rattle.mq_log.specs.Events.{Placed};

    // Whether the log is foreseen to be timed: of any other log nothing is known of the sink.
    ghost foreseen: { Bool };
    // It has received these events, the newest first. It may not have been told yet.
    ghost received: { Self → List Placed → Type 0 };

    ghost has_failed: { Self → Bool };

    /// Tells it whether the log's records have moments. It needs to be told before each piece that
    /// may complete an event.
    fn tell(&mut self, timed: bool)
        ensures { (earlier : List Placed) → received self.old earlier → timed ≡ foreseen → Self.agrees self.new earlier };

    /// Whether it has not failed.
    ///
    /// # Errors
    ///
    /// `Memory(0)` if it has.
    fn result(&self) -> Result<(), Refusal>
        ensures ok { OnOk result (has_failed self.now ≡ false) }
        ensures err { IfErr result (λ _. has_failed self.now ≡ true) };

    ghost keeps: { (sink : Self) (earlier : List Placed) → Self.agrees sink earlier → received sink earlier };
}

/// A sink that writes what is shown of each event. It refuses none: after a failed write it writes
/// nothing more.
///
/// No code uses `K`. It is there for the proofs: by it `agrees` can say to which writer is written,
/// what that held before the first event, and by what text events are shown.
struct Display<'a, 'b, 'f, W, K> {
    out: &'b mut Outgoing<'a, W>,
    view: View<'f>,
    /// Whether the log's records have moments, once it was told.
    timed: bool,
    of: PhantomData<K>,
}

impl<'a, 'b, 'f, W, K> Drop for Display<'a, 'b, 'f, W, K> {
    fn drop(self)
        ensures { self.exit.0.now ≡ self.entry.out.now }
    {
        let Self {
            out: _,
            view: _,
            timed: _,
            of: _,
        } = self;
    }
}

impl<W: Write, K: Given> Sink for Display<'_, '_, '_, W, K> {
    ghost use Rattle.std.specs.Prelude.{◌≡◌};
    ghost use Rattle.mq_display.specs.Outgoing.{Carries};
    ghost use Rattle.mq_display.specs.Views.{IsStateAfter, text_by};

    // It was told what was foreseen. What was written and what waits are the text of the events; or
    // a write failed, and what was written is a beginning of it.
    ghost agrees = { λ display received. ((display.out.now.writer.ghost_name ≡ K.name) × (text_by K.timed display.view ≡ K.text)
        × IsStateAfter received display.view × Carries W.contents K.held (K.text received) display.out.now
        × (display.out.ghost_name ≡ K.direction)) × (display.timed ≡ K.timed) };

    ghost refuses = { λ _ _ _. ⊥ };

    #[inline(always)]
    fn event(&mut self, place: Place3, event: Event<'_>) -> Result<(), Refusal> {
        self.view.put(self.out, self.timed, place, &event);
        Ok(())
    }

    #[inline(always)]
    fn packet(
        &mut self,
        place: Place3,
        direction: Direction,
        size: u32,
        packet: Packet<'_>,
    ) -> Result<(), Refusal> {
        self.view
            .put_packet(self.out, self.timed, place, direction, size, packet);
        Ok(())
    }
}

impl<W: Write, K: Given> Told for Display<'_, '_, '_, W, K> {
    ghost use Rattle.std.specs.Prelude.{◌≡◌};
    ghost use Rattle.mq_display.specs.Outgoing.{Carries};
    ghost use Rattle.mq_display.specs.Views.{IsStateAfter, text_by};

    ghost foreseen = { K.timed };

    ghost received = { λ display received. (display.out.now.writer.ghost_name ≡ K.name) × (text_by K.timed display.view ≡ K.text)
        × IsStateAfter received display.view × Carries W.contents K.held (K.text received) display.out.now
        × (display.out.ghost_name ≡ K.direction) };

    ghost has_failed = { λ display. display.out.now.failed };

    fn tell(&mut self, timed: bool) {
        self.timed = timed;
    }

    fn result(&self) -> Result<(), Refusal> {
        self.out.result()
    }

    ghost keeps = { λ display earlier agrees. agrees.0 };
}

/// Reads a log, and passes its events to a sink that shows them.
#[derive(Drop)]
struct Showing {
    tracer: Tracer,
}

impl<S: Told> Feed<S, Refusal> for Showing {
    ghost use Rattle.mq_display.specs.Tracing.{IsShown, ShowStops};

    ghost limit = { λ showing. showing.tracer.reading.limit };

    ghost follows = { λ showing sink log. IsShown S.received S.foreseen showing.tracer sink log };

    ghost stops = { λ limit _ sink log piece refusal. ShowStops S.received S.refuses S.has_failed S.foreseen limit sink log piece refusal };

    fn feed(&mut self, sink: &mut S, piece: &[u8]) -> Result<(), Refusal> {
        let rest = self.tracer.begin(piece)?;
        let Some(header) = self.tracer.header() else {
            return Ok(());
        };
        sink.tell(header.version == 2);
        self.tracer.feed(rest, sink)?;
        sink.result()
    }
}

/// Writes a line for each event of the log that a reader gives: `<position> record <n> `, for a log
/// of version 2 `moment <m> ` with the moment of that record, and then `OPEN`, `CLOSE`, `REST`,
/// `RELEASE <id>`, or `SENT ` or `RECV ` with what `write_packet` writes of the item: `<TYPE> size
/// <n>`, with ` qos <q> dup <d>` for a PUBLISH and ` id <i>` if there is a Packet Identifier; `BAD
/// <code> offset <n>` if it breaks a rule; `LOST` if the rest of the direction can't be parsed.
/// Lines are buffered in 8,192 bytes, and all are written before it returns. It reads at most
/// 4,294,967,295 times, and at most 65,536 bytes each time.
///
/// # Errors
///
/// `Refused` if the log is refused, if the reader fails or hasn't ended after the last read, or if
/// there is no memory. Exactly the lines of the events before the refused byte were then written.
/// `Write` if a write failed: the writer returned an error, also one for an interruption, or took
/// no byte. A beginning of the lines, but not all of them, was then written.
///
/// # Examples
///
/// ```
/// let log = b"MQTR\x01\x00\x01\x00\x01\x00\x00\x00\x00\x04\x00\x00\x00\x00";
/// let mut lines = Vec::new(rt.alloc());
/// show(rt.alloc(), &mut log.as_slice(), &mut lines)?;
/// let shown = b"1 record 1 OPEN\n2 record 2 CLOSE\n";
/// assert_eq!(rt; lines.as_slice(), shown.as_slice());
/// ```
///
/// A log of version 2, whose records have moments:
///
/// ```
/// let log = b"MQTR\x02\x00\x01\x00\x01\x00\x00\x00\x00\x00\x00\x00\x00\x00\x00\x00\x07";
/// let mut lines = Vec::new(rt.alloc());
/// show(rt.alloc(), &mut log.as_slice(), &mut lines)?;
/// let shown = b"1 record 1 moment 7 OPEN\n";
/// assert_eq!(rt; lines.as_slice(), shown.as_slice());
/// ```
pub fn show<R: Read, W: Write>(
    alloc: Global,
    reader: &mut R,
    writer: &mut W,
) -> Result<(), RunFault>
    ensures { IfSome (R.remaining reader.old) (λ log. Shows (short_lines_of (is_timed log)) log (R.remaining reader.new) result (W.contents writer.old) (W.contents writer.new)) }
{
    let mut out = Outgoing::to(writer);
    show_view(alloc, View::Brief, reader, &mut out)
}

/// Shows the events of a log as `show` does, in long lines: the words of each line are followed by
/// the other fields of its packet and its properties, each by its name. Those of a packet that
/// breaks a rule are followed by `type <TYPE> bytes <bytes>`: the type that its first byte names
/// (`Reserved` if that is 0), and at most 64 of its bytes, with one in brackets: the one at the
/// fault's offset, or if that is a text's, the first wrong byte of the text, whose own offset then
/// comes before the bytes, as `at <n>`. They are the first ones, or if the marked one isn't among
/// them, 32 before it, that one and 31 after it; `..` stands where bytes are left out, and `[]` at
/// the end if the packet ends before the offset.
///
/// # Errors
///
/// As `show`.
pub fn show_long<R: Read, W: Write>(
    alloc: Global,
    reader: &mut R,
    writer: &mut W,
) -> Result<(), RunFault>
    ensures { IfSome (R.remaining reader.old) (λ log. Shows (long_lines_of (is_timed log)) log (R.remaining reader.new) result (W.contents writer.old) (W.contents writer.new)) }
{
    let mut out = Outgoing::to(writer);
    show_view(alloc, View::Long, reader, &mut out)
}

/// Writes the events of the log that a reader gives, as `show` does, or as `show_long` if `long` is
/// true, and under each the faults at its position, a line for each: `  fault <code> <citation>
/// <sentence>`, with ` (decided at event <n>)` if that is a later one, ` (offset <n>)` if the fault
/// is on a packet's bytes, and in a log of version 2 ` (at <date> <time> UTC)` if the moment of the
/// event's record is one from 2000-01-01 to before 2100-01-01 in microseconds since 1970-01-01
/// 00:00:00 UTC, as in ` (at 2026-11-26 17:03:21.123456 UTC)`. The faults are those of an end in
/// this role. A packet that breaks a rule has its type and its bytes on its line, as in
/// `show_long`. With `around`, only events at most that many positions from a fault are shown, and
/// each run of others is a line `..`.
///
/// The reasons say what the faults conflict with, one for each in the order of the faults. After
/// the sentence of its statement a fault's line says that in words, as in ` (because of event 2: 11
/// in flight, at most 10 allowed)` or ` (never asked for in this session)`; of a packet that is at
/// fault by itself it says nothing more. A fault beyond the end of the reasons gets no such words,
/// and a reason beyond the faults is left out.
///
/// # Errors
///
/// As `show`.
pub fn show_faults<R: Read, W: Write>(
    alloc: Global,
    faults: &Faults,
    reasons: &[Evidence],
    role: Role,
    extent: Extent,
    reader: &mut R,
    writer: &mut W,
) -> Result<(), RunFault>
    ensures { IfSome (R.remaining reader.old)
        (λ log. Shows (annotated (is_timed log) (record { role = role; faults = map.entries faults.now; reasons = reasons.now; around = extent.around; long = extent.long }))
        log (R.remaining reader.new) result (W.contents writer.old) (W.contents writer.new)) }
{
    let view = View::Annotated(Annotated {
        faults,
        reasons,
        left: left_at_first(faults, reasons),
        role,
        extent,
        begins_gap: true,
    });
    let mut out = Outgoing::to(writer);
    show_view(alloc, view, reader, &mut out)
}

// Shows all that a reader gives, from a view that has shown nothing yet, by an `Outgoing` without
// text.
fn show_view<R: Read, W: Write>(
    alloc: Global,
    view: View<'_>,
    reader: &mut R,
    out: &mut Outgoing<'_, W>,
) -> Result<(), RunFault>
    requires empty { (timed : Bool) → text_by timed view [] ≡ [] }
    requires fresh { (out.old.failed ≡ false) × (out.old.lines ≡ []) × IsStateAfter [] view }
    ensures same { IfSome (R.remaining reader.old) (λ _. out.new.writer.ghost_name ≡ out.old.writer.ghost_name) }
    ensures shows { IfSome (R.remaining reader.old) (λ log. Shows (text_by (is_timed log) view.entry) log (R.remaining reader.new) result (W.contents out.old.writer.now) (W.contents out.new.writer.now)) }
{
    let mut showing = Showing {
        tracer: Tracer::new(alloc, DEFAULT_LIMIT),
    };
    let mut display = Display::<'_, '_, '_, W, Brand> {
        out,
        view,
        timed: false,
        of: PhantomData,
    };
    show_all::<R, W, Brand>(&mut showing, &mut display, reader, u32::MAX)
}

// Shows all that a reader gives in at most `turns` turns, from a sink that has received nothing
// yet, to the writer that was picked.
fn show_all<R: Read, W: Write, K: Given>(
    showing: &mut Showing,
    display: &mut Display<'_, '_, '_, W, K>,
    reader: &mut R,
    turns: u32,
) -> Result<(), RunFault>
    requires direction { display.old.out.ghost_name ≡ K.direction }
    requires name { display.old.out.now.writer.ghost_name ≡ K.name }
    requires held { W.contents display.old.out.now.writer.now ≡ K.held }
    requires timed { K.timed ≡ is_timed_if_known (R.remaining reader.old) }
    requires text { text_by K.timed display.old.view ≡ K.text }
    requires empty { K.text [] ≡ [] }
    requires fresh { (display.old.out.now.failed ≡ false) × (display.old.out.now.lines ≡ []) × IsStateAfter [] display.old.view }
    requires follows { IsTracedTo showing.old.tracer [] × (showing.old.tracer.reading.limit ≡ default_limit) }
    ensures direction { IfSome (R.remaining reader.old) (λ _. display.new.out.ghost_name ≡ display.old.out.ghost_name) }
    ensures writer { IfSome (R.remaining reader.old) (λ _. display.new.out.now.writer.ghost_name ≡ display.old.out.now.writer.ghost_name) }
    ensures shows { IfSome (R.remaining reader.old) (λ log. Shows K.text log (R.remaining reader.new) result K.held (W.contents display.new.out.now.writer.now)) }
{
    let mut buffer = [0; 65_536];
    let fed = feed_log(showing, display, reader, &mut buffer, turns);
    display.out.write_last()?;
    match fed {
        Ok(()) => end(&mut showing.tracer),
        Err(refusal) => Err(RunFault::Refused(refusal)),
    }
}

// Ends the log that a tracer was fed.
fn end(tracer: &mut Tracer) -> Result<(), RunFault>
    ensures ok { OnOk result ((log : List ℕ) → IsTracedTo tracer.old log → is_cut_short log ≡ false) }
    ensures refused { IfErr result (λ fault. (log : List ℕ) → IsTracedTo tracer.old log
        → (fault ≡ RunFault.Refused (refusals.Cut (length log))) × (is_cut_short log ≡ true)) }
{
    match tracer.finish() {
        Ok(()) => Ok(()),
        Err(refusal) => Err(RunFault::Refused(refusal)),
    }
}
