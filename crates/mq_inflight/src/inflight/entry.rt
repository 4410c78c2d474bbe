//! What is kept of a Packet Identifier that is open in a session (MQTT 5.0, section 2.2.1).
ghost use Rattle.std.specs.Prelude.{◌≡◌, ℕ, OnOk, IfOk, nat_eq};
ghost use Rattle.std.specs.Option.{option_and_then};
ghost use Rattle.mq_rules.specs.KeptOrder.{value_under};
ghost use Rattle.mq_rules.specs.Words.{is_id, is_some_and};
ghost use Rattle.mq_rules.specs.Notes.{is_exactly_once, sent_publish};
ghost use Rattle.mq_inflight.specs.Opened.{sends_retained, sent_if, released_if, confirmed_if, closed_if, opened_if, entry_after, entry_next};

use mq_log::Place3;
use mq_packet::Qos;
use mq_rules::{CountedByIdentifier, Fate, Memory, Note};

/// What is kept of an identifier that is open.
#[derive(Clone, Copy)]
pub struct Entry {
    /// The place of its latest opener.
    pub place: Place3,
    /// The opener is of QoS 2.
    pub exactly_once: bool,
    /// The opener has RETAIN 1.
    pub retained: bool,
    /// A PUBREC below 0x80 was received since.
    pub confirmed: bool,
    /// A PUBREL was sent since.
    pub released: bool,
    /// It was passed over before what was sent last under it: on a resumed connection on which the
    /// peer announced a Maximum Packet Size or a Maximum QoS nothing of it was sent.
    pub passed: bool,
    /// The position of the latest PUBLISH or PUBREL that was sent under it.
    pub sent: u32,
    /// The position of the latest PUBLISH that was.
    pub published: u32,
}

// Whether a PUBLISH of QoS 2 is sent.
fn is_sent_exactly_once(note: &Note) -> bool
    ensures { result ≡ is_some_and (λ p. is_exactly_once p.qos) (sent_publish note.now) }
{
    match note.sent_publish() {
        Some(publish) => matches!(publish.qos, Qos::ExactlyOnce),
        None => false,
    }
}

// Whether a PUBLISH with RETAIN 1 is sent.
fn is_sent_retained(note: &Note) -> bool
    ensures { result ≡ sends_retained note.now }
{
    match note.sent_publish() {
        Some(publish) => publish.retain,
        None => false,
    }
}

// Takes in that a PUBLISH is sent under an identifier, where connections before this one that
// passed over began up to `bounded`.
fn send(
    entries: &mut CountedByIdentifier<Entry>,
    identifier: Option<u16>,
    bounded: u32,
    position: u32,
)
    ensures entries { (i : ℕ) → value_under entries.new i ≡ sent_if (is_id i identifier) bounded position (value_under entries.old i) }
{
    if let Some(i) = identifier {
        if let Some(entry) = entries.get(i) {
            let sent = Entry {
                passed: entry.sent < bounded || entry.passed,
                sent: position,
                published: position,
                ..entry
            };
            entries.replace(i, sent);
        }
    }
}

/// Takes in that a PUBREL is sent under an identifier, where connections before this one that
/// passed over began up to `bounded`.
#[inline(always)]
pub fn release(
    entries: &mut CountedByIdentifier<Entry>,
    identifier: Option<u16>,
    bounded: u32,
    position: u32,
)
    ensures entries { (i : ℕ) → value_under entries.new i ≡ released_if (is_id i identifier) bounded position (value_under entries.old i) }
{
    if let Some(i) = identifier {
        if let Some(entry) = entries.get(i) {
            let released = Entry {
                released: true,
                passed: entry.sent < bounded || entry.passed,
                sent: position,
                ..entry
            };
            entries.replace(i, released);
        }
    }
}

/// Takes in that a PUBREC below 0x80 is received under an identifier.
#[inline(always)]
pub fn confirm(entries: &mut CountedByIdentifier<Entry>, identifier: Option<u16>)
    ensures entries { (i : ℕ) → value_under entries.new i ≡ confirmed_if (is_id i identifier) (value_under entries.old i) }
{
    if let Some(i) = identifier {
        if let Some(entry) = entries.get(i) {
            let confirmed = Entry {
                confirmed: true,
                ..entry
            };
            entries.replace(i, confirmed);
        }
    }
}

/// Takes in that an identifier is set free.
#[inline(always)]
pub fn close(entries: &mut CountedByIdentifier<Entry>, identifier: Option<u16>)
    ensures entries { (i : ℕ) → value_under entries.new i ≡ closed_if (is_id i identifier) (value_under entries.old i) }
{
    if let Some(i) = identifier {
        entries.remove(i);
    }
}

/// Takes in that an identifier is opened, and returns what was kept of it before.
#[inline(always)]
pub fn open_new(
    entries: &mut CountedByIdentifier<Entry>,
    identifier: Option<u16>,
    exactly_once: bool,
    retained: bool,
    at: Place3,
) -> Result<Option<Entry>, Memory>
    ensures entries { OnOk result ((i : ℕ) → value_under entries.new i ≡ opened_if (is_id i identifier) exactly_once retained at (value_under entries.old i)) }
    ensures old { IfOk result (λ old. old ≡ option_and_then (value_under entries.old) identifier) }
{
    if let Some(i) = identifier {
        let entry = Entry {
            place: at,
            exactly_once,
            retained,
            confirmed: false,
            released: false,
            passed: false,
            sent: at.position,
            published: at.position,
        };
        let old = entries.get(i);
        entries.insert(i, entry)?;
        return Ok(old);
    }
    Ok(None)
}

// Takes in an event of the session.
fn take_in(
    entries: &mut CountedByIdentifier<Entry>,
    bounded: u32,
    at: Place3,
    note: &Note,
) -> Result<(), Memory>
    ensures entries { OnOk result ((i : ℕ) → value_under entries.new i ≡ entry_after bounded i note.now at (value_under entries.old i)) }
{
    send(entries, note.delivery(), bounded, at.position);
    release(entries, note.sent_pubrel(), bounded, at.position);
    confirm(entries, note.received_accepting_pubrec());
    close(entries, note.closer());
    open_new(
        entries,
        note.opener(),
        is_sent_exactly_once(note),
        is_sent_retained(note),
        at,
    )?;
    Ok(())
}

/// Takes in an event of a connection that has this fate, where connections before it that passed
/// over began up to `bounded`.
pub fn take_entries(
    entries: &mut CountedByIdentifier<Entry>,
    bounded: u32,
    at: Place3,
    fate: Fate,
    note: &Note,
) -> Result<(), Memory>
    ensures entries { OnOk result ((i : ℕ) → value_under entries.new i ≡ entry_next fate note.now bounded at i (value_under entries.old i)) }
{
    if note.is_open() {
        if fate.begins() {
            entries.clear();
        }
        return Ok(());
    }
    if !fate.accepts() {
        return Ok(());
    }
    take_in(entries, bounded, at, note)?;
    Ok(())
}
