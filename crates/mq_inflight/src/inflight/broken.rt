//! Which statements on Packet Identifiers an event breaks (MQTT 5.0, sections 2.2.1, 4.3 and 4.4).
ghost use Rattle.std.specs.Prelude.{◌≡◌, ◌&&◌, ◌||◌, not, nat_eq, nat_lt, OnOk, OnErr, is_some};
ghost use Rattle.mq_rules.specs.KeptOrder.{value_under};
ghost use Rattle.indexmap.specs.IndexSet.{contains};
ghost use Rattle.mq_rules.specs.Words.{is_some_and};
ghost use Rattle.mq_rules.specs.Notes.{resend_of};
ghost use Rattle.mq_rules.specs.Connections.{accepts};
ghost use Rattle.mq_fates.specs.Judgements.{Keeps};
ghost use Rattle.mq_inflight.specs.Earlier.{may_resend};
ghost use Rattle.mq_inflight.specs.Using.{all_excused as all_excused_by, in_delivery, is_taken as taken, takes_busy, judged_all, unopened, past_pubrel, out_of_order, resent_by, resent_next};

use super::earlier::Earlier;
use super::entry::Entry;
use indexmap::IndexSet;
use mq_fates::{excuse, judge_by};
use mq_log::Place3;
use mq_rules::{CountedByIdentifier, Fate, Faults, Memory, Note, Role, Rule};

/// Which statements an event breaks.
#[derive(Drop)]
pub struct Broken {
    /// S01: it takes an identifier that is busy.
    pub takes_busy: bool,
    /// S02: it sends a PUBLISH again that isn't open, and that no earlier connection excuses.
    pub unopened: bool,
    /// S03: it sends a PUBLISH again that was sent on its connection.
    pub twice: bool,
    /// S04: it sends a PUBLISH of QoS 2 again after its PUBREL.
    pub past_pubrel: bool,
    /// S05: it sends a PUBLISH again after one that was opened later.
    pub out_of_order: bool,
}

/// What an event breaks, but for what may surprise the end while the fate of the connection isn't
/// known.
pub fn all_excused(fate: Fate, known: bool, broken: Broken) -> Broken
    ensures { result ≡ all_excused_by fate known broken }
{
    Broken {
        takes_busy: excuse(fate.is_unasked(), known, broken.takes_busy),
        unopened: excuse(fate.surprises(), known, broken.unopened),
        twice: broken.twice,
        past_pubrel: broken.past_pubrel,
        out_of_order: broken.out_of_order,
    }
}

/// Whether what is open is in use, or may have been discarded: it was passed over, by connections
/// that began up to `since`, and not confirmed.
pub fn is_taken(entry: &Entry, since: u32) -> bool
    ensures { result ≡ taken since entry.now }
{
    entry.confirmed || !(entry.passed || entry.sent < since)
}

/// Whether an identifier is open, and what is open is in use.
pub fn is_held(entries: &CountedByIdentifier<Entry>, since: u32, i: u16) -> bool
    ensures { result ≡ is_some_and (taken since) (value_under entries.now i) }
{
    match entries.get(i) {
        Some(entry) => is_taken(&entry, since),
        None => false,
    }
}

// Whether an identifier is in use.
fn is_busy(
    entries: &CountedByIdentifier<Entry>,
    since: u32,
    subscribing: &IndexSet<u16>,
    unsubscribing: &IndexSet<u16>,
    i: u16,
) -> bool
    ensures { result ≡ (is_some_and (taken since) (value_under entries.now i) || (contains nat_eq subscribing.now i || contains nat_eq unsubscribing.now i)) }
{
    is_held(entries, since, i) || (subscribing.contains(&i) || unsubscribing.contains(&i))
}

/// Whether an event takes an identifier that is busy, where connections that passed over began up
/// to `since`.
pub fn takes(
    fate: Fate,
    role: Role,
    note: &Note,
    entries: &CountedByIdentifier<Entry>,
    since: u32,
    subscribing: &IndexSet<u16>,
    unsubscribing: &IndexSet<u16>,
) -> bool
    ensures { result ≡ takes_busy fate role note.now since (value_under entries.now) (contains nat_eq subscribing.now) (contains nat_eq unsubscribing.now) }
{
    fate.accepts()
        && match note.taken_identifier(role) {
            Some(i) => is_busy(entries, since, subscribing, unsubscribing, i),
            None => false,
        }
}

/// Whether an event sends a PUBLISH again that isn't open, wasn't sent on a void connection, and
/// isn't excused by what was cut off, or sent before the session began.
pub fn is_unopened(
    fate: Fate,
    note: &Note,
    entries: &CountedByIdentifier<Entry>,
    void: &IndexSet<u16>,
    earlier: &Earlier,
) -> bool
    ensures { result ≡ (accepts fate && is_some_and (unopened (value_under entries.now) (contains nat_eq void.now) (may_resend earlier.now fate)) (resend_of note.now)) }
{
    fate.accepts()
        && match note.resend() {
            Some(i) => !(entries.contains(i) || (void.contains(&i) || earlier.may_resend(fate, i))),
            None => false,
        }
}

// Whether a PUBLISH was sent under an identifier on the connection, and not acknowledged since.
fn is_delivering(
    entries: &CountedByIdentifier<Entry>,
    opened: u32,
    stray: &IndexSet<u16>,
    i: u16,
) -> bool
    ensures { result ≡ in_delivery opened (value_under entries.now) (contains nat_eq stray.now) i }
{
    stray.contains(&i)
        || match entries.get(i) {
            Some(entry) => opened <= entry.published,
            None => false,
        }
}

/// Whether an event sends a PUBLISH again that was sent on its connection, and wasn't acknowledged
/// since.
pub fn is_twice(
    fate: Fate,
    note: &Note,
    entries: &CountedByIdentifier<Entry>,
    opened: u32,
    stray: &IndexSet<u16>,
) -> bool
    ensures { result ≡ (accepts fate && is_some_and (in_delivery opened (value_under entries.now) (contains nat_eq stray.now)) (resend_of note.now)) }
{
    fate.accepts()
        && match note.resend() {
            Some(i) => is_delivering(entries, opened, stray, i),
            None => false,
        }
}

/// Whether an event sends a PUBLISH of QoS 2 again after its PUBREL.
pub fn is_past_pubrel(fate: Fate, note: &Note, entries: &CountedByIdentifier<Entry>) -> bool
    ensures { result ≡ (accepts fate && is_some_and (past_pubrel (value_under entries.now)) (resend_of note.now)) }
{
    fate.accepts()
        && match note.resend() {
            Some(i) => match entries.get(i) {
                Some(entry) => entry.exactly_once && entry.released,
                None => false,
            },
            None => false,
        }
}

/// Whether an event sends a PUBLISH again after one that was opened later.
pub fn is_out_of_order(
    bound: bool,
    fate: Fate,
    note: &Note,
    entries: &CountedByIdentifier<Entry>,
    resent: u32,
) -> bool
    ensures { result ≡ (bound && (accepts fate && is_some_and (out_of_order (value_under entries.now) resent) (resend_of note.now))) }
{
    bound
        && (fate.accepts()
            && match note.resend() {
                Some(i) => match entries.get(i) {
                    Some(entry) => entry.place.position < resent,
                    None => false,
                },
                None => false,
            })
}

// The position of the opener of an identifier that is sent again, or 0.
fn resent_now(note: &Note, entries: &CountedByIdentifier<Entry>) -> u32
    ensures { result ≡ resent_by (resend_of note.now) (value_under entries.now) }
{
    match note.resend() {
        Some(i) => match entries.get(i) {
            Some(entry) => entry.place.position,
            None => 0,
        },
        None => 0,
    }
}

/// The greatest position of an opener that was sent again on the connection, after an event.
pub fn resent_after(resent: u32, note: &Note, entries: &CountedByIdentifier<Entry>) -> u32
    ensures { result ≡ resent_next note.now (value_under entries.now) resent }
{
    if note.is_open() {
        return 0;
    }
    let now = resent_now(note, entries);
    if resent < now {
        return now;
    }
    resent
}

/// Adds the faults of the statements that an event breaks.
pub fn judge_all(
    broken: &Broken,
    at: Place3,
    decided: u32,
    faults: &mut Faults,
) -> Result<(), Memory>
    ensures ok { OnOk result (faults.new ≡ judged_all broken.now at decided faults.old) }
    ensures memory { OnErr result (Keeps faults.old faults.new) }
    ensures partial { OnErr result (Keeps faults.new (judged_all broken.now at decided faults.old)) }
{
    judge_by(Rule::S01, broken.takes_busy, at, decided, faults)?;
    judge_by(Rule::S02, broken.unopened, at, decided, faults)?;
    judge_by(Rule::S03, broken.twice, at, decided, faults)?;
    judge_by(Rule::S04, broken.past_pubrel, at, decided, faults)?;
    judge_by(Rule::S05, broken.out_of_order, at, decided, faults)?;
    Ok(())
}
