//! The events of a log with the faults at them.
ghost use Rattle.std.specs.Prelude.{◌≡◌, ◌+◌, [], codes, if◌then◌else◌};
ghost use Rattle.std.specs.FinMap as map;
ghost use Rattle.mq_report.specs.Report.{line};
ghost use Rattle.mq_display.specs.Outgoing.{Puts};
ghost use Rattle.mq_display.specs.Display.{decided_words, explained, fault_note, fault_notes, event_text_after, is_near, offset_words, reason_of_first, shown_line, statement_words};
ghost use Rattle.mq_display.specs.Calendar.{time_words};
ghost use Rattle.mq_display.specs.Views.{HasPassed, annotation_of, left_here, noted_here, reasons_from, reasons_past, text_here};
ghost use Rattle.mq_rules.specs.FaultKeys.{faults_at};
ghost use Rattle.mq_log.specs.Reception.{placed_at};

use super::because::put_reason;
use super::calendar::put_time;
use super::outgoing::Outgoing;
use super::view::{put_line_with_bytes, put_long_line};
use mq_log::{Event, Place3};
use mq_report::later_reasons;
use mq_rules::{Evidence, Fault, FaultKey, Faults, Role, Rule};
use std::io::Write;

/// How much of a log is shown with its faults.
#[derive(Clone, Copy)]
pub struct Extent {
    /// Only events within this many positions of a fault are shown; with `None` all are.
    pub around: Option<u32>,
    /// Whether the lines of events are long.
    pub long: bool,
}

/// The line of each event near to a fault, with a line for each fault at it, and a line `..` for
/// each run of events that are left out.
#[derive(Clone, Copy)]
pub struct Annotated<'a> {
    /// The faults.
    pub faults: &'a Faults,
    /// What they conflict with, in their order. No code reads it, but `left`, which is the rest of
    /// it: it is there for the proofs.
    pub reasons: &'a [Evidence],
    /// The reasons of the faults that are at the next event or later.
    pub left: &'a [Evidence],
    /// The role of the end whose faults they are.
    pub role: Role,
    /// How much is shown.
    pub extent: Extent,
    /// Whether an event that is left out begins a run of them: it is the first one, or the one
    /// before it is shown.
    pub begins_gap: bool,
}

impl Annotated<'_> {
    /// Appends what is shown of the next event, which has this place, in a log whose records have
    /// moments if `timed` is true.
    #[inline(never)]
    pub fn put<W: Write>(
        &mut self,
        out: &mut Outgoing<'_, W>,
        timed: bool,
        place: Place3,
        event: &Event<'_>,
    )
        ensures same { annotation_of self.new ≡ annotation_of self.old }
        ensures gap { self.new.begins_gap ≡ is_near self.old.extent.around (map.entries self.old.faults.now) place.position }
        ensures writer { out.new.writer.ghost_name ≡ out.old.writer.ghost_name }
        ensures passes { HasPassed place.position self.old → HasPassed (place.position + 1) self.new }
        ensures puts { HasPassed place.position self.old → Puts W.contents out.old
            (event_text_after timed (annotation_of self.old) self.old.begins_gap (placed_at place event.now)) out.new }
    {
        let shown = is_near(self.faults, self.extent.around, place.position);
        self.left = put_event(out, self, shown, timed, place, event);
        self.begins_gap = shown;
    }
}

/// The reasons of the faults that are at the first event or later, of those of all these faults.
pub fn left_at_first<'a>(faults: &Faults, reasons: &'a [Evidence]) -> &'a [Evidence]
    ensures { result.now ≡ reasons_from 1 (map.entries faults.now) reasons.entry.now }
{
    pass(faults, 0, reasons)
}

// Appends what is shown of an event that is shown, or left out. Returns the reasons of the faults
// after it.
fn put_event<'a, W: Write>(
    out: &mut Outgoing<'_, W>,
    view: &Annotated<'a>,
    shown: bool,
    timed: bool,
    place: Place3,
    event: &Event<'_>,
) -> &'a [Evidence]
    ensures left { result.now ≡ left_here shown view.now place.position }
    ensures puts { Puts W.contents out.old (text_here shown timed view.now (placed_at place event.now)) out.new }
{
    if shown {
        put_noted_line(out, view, timed, place, event)
    } else {
        put_gap(out, view.begins_gap);
        view.left
    }
}

// Appends the line of an event at its place, and those of the faults at it. Returns the reasons of
// the faults after it.
fn put_noted_line<'a, W: Write>(
    out: &mut Outgoing<'_, W>,
    view: &Annotated<'a>,
    timed: bool,
    place: Place3,
    event: &Event<'_>,
) -> &'a [Evidence]
    ensures left { result.now ≡ reasons_past (faults_at place.position (map.entries view.now.faults.now)) view.now.left.now }
    ensures puts { Puts W.contents out.old (noted_here timed view.now (placed_at place event.now)) out.new }
{
    put_shown_line(out, timed, view.extent.long, place, event);
    put_notes(out, view.faults, view.left, view.role, timed, place)
}

// Whether a position is within `around` positions of a fault; with `None` any is.
fn is_near(faults: &Faults, around: Option<u32>, position: u32) -> bool
    ensures { result ≡ is_near around (map.entries faults.now) position }
{
    let Some(count) = around else {
        return true;
    };
    match faults.first_from(position.saturating_sub(count)) {
        Some(first) => first.saturating_sub(position) <= count,
        None => false,
    }
}

// The reasons after those of the faults at this position.
fn pass<'a>(faults: &Faults, position: u32, reasons: &'a [Evidence]) -> &'a [Evidence]
    ensures { result.now ≡ reasons_past (faults_at position (map.entries faults.now)) reasons.entry.now }
{
    let mut left = reasons;
    for (_key, _fault) in faults.at(position) {
        left = later_reasons(left);
    }
    left
}

// Appends the line of an event at its place: the long one, or the short one with the bytes of a
// packet that breaks a rule.
fn put_shown_line<W: Write>(
    out: &mut Outgoing<'_, W>,
    timed: bool,
    long: bool,
    place: Place3,
    event: &Event<'_>,
)
    ensures { Puts W.contents out.old (shown_line timed long (placed_at place event.now)) out.new }
{
    if long {
        put_long_line(out, timed, place, event);
    } else {
        put_line_with_bytes(out, timed, place, event);
    }
}

// Appends the line for a run of events that are left out, if this one begins it.
fn put_gap<W: Write>(out: &mut Outgoing<'_, W>, begins: bool)
    ensures { Puts W.contents out.old (if begins then line (codes "..") else []) out.new }
{
    if begins {
        out.put("..\n");
    }
}

// Appends the lines of the faults at an event with this place, in a log whose records have moments
// if `timed` is true. The reasons are those of these faults and of the later ones; those of the
// later ones are returned.
fn put_notes<'a, W: Write>(
    out: &mut Outgoing<'_, W>,
    faults: &Faults,
    reasons: &'a [Evidence],
    role: Role,
    timed: bool,
    place: Place3,
) -> &'a [Evidence]
    ensures left { result.now ≡ reasons_past (faults_at place.position (map.entries faults.now)) reasons.entry.now }
    ensures puts { Puts W.contents out.old (fault_notes role (time_words timed place.moment)
        (explained (faults_at place.position (map.entries faults.now)) reasons.entry.now)) out.new }
{
    let mut left = reasons;
    for (key, fault) in faults.at(place.position) {
        let reason = first_of(left);
        put_note(out, role, timed, place.moment, *key, *fault, reason);
        left = later_reasons(left);
    }
    left
}

// The first of these reasons, if there is one.
fn first_of(reasons: &[Evidence]) -> Option<Evidence>
    ensures { result ≡ reason_of_first reasons.now }
{
    let (first, _) = reasons.split_first()?;
    Some(*first)
}

// Appends the line of a fault: its statement and what that says, what the fault conflicts with,
// where it was decided if that is at a later event, where in its packet it is, and this moment as a
// time.
fn put_note<W: Write>(
    out: &mut Outgoing<'_, W>,
    role: Role,
    timed: bool,
    moment: u64,
    key: FaultKey,
    fault: Fault,
    reason: Option<Evidence>,
)
    ensures { Puts W.contents out.old (fault_note role (time_words timed moment) ((key, fault), reason)) out.new }
{
    put_statement(out, role, key.rule);
    put_reason(out, key.rule, reason);
    put_decided(out, key.position, fault.decided);
    put_offset(out, fault.offset);
    put_time(out, timed, moment);
    out.put("\n");
}

// Appends the words on a statement that is broken by an end in this role.
fn put_statement<W: Write>(out: &mut Outgoing<'_, W>, role: Role, rule: Rule)
    ensures { Puts W.contents out.old (statement_words role rule) out.new }
{
    out.put("  fault ");
    out.put(rule.code());
    out.put(" ");
    out.put(rule.citation(role));
    out.put(" ");
    out.put(rule.sentence());
}

// Appends the words on where the fault at a position was decided, if that is at a later event.
fn put_decided<W: Write>(out: &mut Outgoing<'_, W>, position: u32, decided: u32)
    ensures { Puts W.contents out.old (decided_words position decided) out.new }
{
    if position < decided {
        out.put(" (decided at event ");
        out.put_number(u64::from(decided));
        out.put(")");
    }
}

// Appends the words on where in its packet a fault is, if it is on a packet's bytes.
fn put_offset<W: Write>(out: &mut Outgoing<'_, W>, offset: Option<u32>)
    ensures { Puts W.contents out.old (offset_words offset) out.new }
{
    if let Some(offset) = offset {
        out.put(" (offset ");
        out.put_number(u64::from(offset));
        out.put(")");
    }
}
