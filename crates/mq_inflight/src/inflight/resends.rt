//! What a resumed session owes (MQTT 5.0, section 4.4).
ghost use Rattle.std.specs.Prelude.{◌≡◌, ◌==◌, ◌&&◌, ◌||◌, true, false, OnOk, OnErr, IfOk, cond, not, is_some};
ghost use Rattle.std.specs.List.{list_any};
ghost use Rattle.mq_rules.specs.KeptOrder.{value_under, values_of};
ghost use Rattle.indexmap.specs.IndexSet.{index_set_len};
ghost use Rattle.mq_rules.specs.Words.{is_some_and};
ghost use Rattle.mq_rules.specs.Notes.{note_in, is_open as opens};
ghost use Rattle.mq_fates.specs.Judgements.{Keeps};
ghost use Rattle.mq_inflight.specs.Resending as resending;
ghost use Rattle.mq_inflight.specs.declared.inflight.resends.Excused.{Excused as TheExcused};
ghost use Rattle.mq_inflight.specs.Resending.{by_itself, bounded_next, entire, due_next, blamed_due, told, excuses, settles, bounds_next, confirms_untouched, IsResent};

use super::Inflight;
use super::entry::Entry;
use super::values::values_in;
use indexmap::IndexSet;
use mq_fates::RECEIVE_MAXIMUM;
use mq_rules::{
    CountedByIdentifier, Fate, Fault, FaultKey, Faults, Memory, Note, NoteRef, Role, Rule,
};

/// What the peer announced of what may be sent.
#[derive(Clone, Copy)]
pub struct Bounds {
    /// There is a Maximum Packet Size or a Maximum QoS.
    pub limits: bool,
    /// Nothing may be retained: Retain Available is 0.
    pub refuses_retained: bool,
}

/// What needn't be sent again, unless a PUBREC below 0x80 came for it.
#[derive(Clone, Copy)]
pub struct Excused {
    /// All of it.
    pub all: bool,
    /// What was sent with RETAIN 1.
    pub retained: bool,
    /// What was passed over: nothing was sent under it since this position, or a connection passed
    /// over before what was sent last.
    pub before: u32,
}

// Whatever wasn't confirmed.
const ENTIRE: Excused = Excused {
    all: true,
    retained: true,
    before: 0,
};

// What the peer announces by this event.
fn announces_bounds(role: Role, note: &Note) -> Option<Bounds>
    ensures { result ≡ resending.bounds_by role note.now }
{
    match role {
        Role::Client => match note.connack(role) {
            Some(connack) => Some(Bounds {
                limits: connack.maximum_packet_size.is_some() || connack.maximum_qos.is_some(),
                refuses_retained: connack.retain_available == Some(0),
            }),
            None => None,
        },
        Role::Server => match note.connect(role) {
            Some(connect) => Some(Bounds {
                limits: connect.maximum_packet_size.is_some(),
                refuses_retained: false,
            }),
            None => None,
        },
    }
}

/// What the peer has announced after an event.
pub fn bounds_after(role: Role, bounds: Option<Bounds>, note: &Note) -> Option<Bounds>
    ensures { result ≡ bounds_next role note.now bounds }
{
    let bounds = if note.is_open() { None } else { bounds };
    bounds.or(announces_bounds(role, note))
}

// Whether the peer announced a Maximum Packet Size or a Maximum QoS.
fn is_limited(bounds: Option<Bounds>) -> bool
    ensures { result ≡ resending.is_limited bounds }
{
    match bounds {
        Some(bounds) => bounds.limits,
        None => false,
    }
}

// Whether the peer announced that nothing may be retained.
fn refuses_retained(bounds: Option<Bounds>) -> bool
    ensures { result ≡ is_some_and (λ b. b.refuses_retained) bounds }
{
    match bounds {
        Some(bounds) => bounds.refuses_retained,
        None => false,
    }
}

/// The position of the OPEN of the latest connection that passes over what isn't sent there: this
/// one, whose OPEN is at `opened`, or one before it, as `bounded` says.
pub fn passed_since(fate: Fate, bounds: Option<Bounds>, opened: u32, bounded: u32) -> u32
    ensures { result ≡ resending.passed_since fate bounds opened bounded }
{
    if fate.resumes() && is_limited(bounds) {
        return opened;
    }
    bounded
}

/// The same of the connections before the latest one, after an event; this is kept before it.
pub fn bounded_after(
    note: &Note,
    fate: Fate,
    bounds: Option<Bounds>,
    opened: u32,
    bounded: u32,
) -> u32
    ensures { result ≡ bounded_next note.now fate bounds opened bounded }
{
    if note.is_open() && (fate.resumes() && is_limited(bounds)) {
        return opened;
    }
    bounded
}

/// What needn't be sent again, whatever the quota, unless it was confirmed.
pub fn excused_by_itself(fate: Fate, bounds: Option<Bounds>, opened: u32, bounded: u32) -> Excused
    ensures { result ≡ by_itself fate bounds opened bounded }
{
    Excused {
        all: false,
        retained: refuses_retained(bounds),
        before: passed_since(fate, bounds, opened, bounded),
    }
}

/// What needn't be sent again now, unless it was confirmed.
pub fn excused_now(peer: Option<u16>, in_flight: u64, single: Excused) -> Excused
    ensures { result ≡ excuses peer in_flight single }
{
    Excused {
        all: u64::from(peer.unwrap_or(RECEIVE_MAXIMUM)) <= in_flight,
        ..single
    }
}

impl Entry {
    // Whether what is open was passed over, by connections that began up to this position.
    fn is_passed(&self, since: u32) -> bool
        ensures { result ≡ resending.is_passed since self.now }
    {
        self.passed || self.sent < since
    }
}

impl Excused {
    // What is excused by itself, where not all is.
    fn apart(self) -> Excused
        ensures { result ≡ resending.apart self }
    {
        Excused { all: false, ..self }
    }

    // Whether an identifier that is open and wasn't confirmed is excused.
    fn covers(self, entry: &Entry) -> bool
        ensures { result ≡ resending.covers self entry.now }
    {
        self.all || (entry.is_passed(self.before) || (self.retained && entry.retained))
    }
}

// Whether an identifier that is open is due.
fn is_due(opened: u32, excused: Excused, entry: &Entry) -> bool
    ensures { result ≡ resending.is_due opened excused entry.now }
{
    entry.sent < opened && (entry.confirmed || !excused.covers(entry))
}

// Adds the fault of an identifier, if it is due.
fn blame_one(
    entry: &Entry,
    opened: u32,
    excused: Excused,
    decided: u32,
    faults: &mut Faults,
) -> Result<(), Memory>
    ensures ok { OnOk result (faults.new ≡ due_next opened excused decided entry.now faults.old) }
    ensures unchanged { OnErr result (faults.new ≡ faults.old) }
{
    if !is_due(opened, excused, entry) {
        return Ok(());
    }
    let key = FaultKey {
        position: entry.place.position,
        rule: Rule::S06,
    };
    let fault = Fault {
        decided,
        record_no: entry.place.record_no,
        offset: None,
    };
    faults.add(key, fault)?;
    Ok(())
}

/// What is known not to be due on the connection. A REST then needn't look for it.
#[derive(Clone, Copy)]
pub struct Resent {
    /// All identifiers that are open were sent again, or are excused by themselves.
    pub all: bool,
    /// All that are open and for which a PUBREC below 0x80 came were sent again.
    pub confirmed: bool,
}

/// What is known after an event, before it is taken in. An OPEN ends all, and a PUBREC may confirm
/// what wasn't sent again.
pub fn resent_still(
    resent: Resent,
    entries: &CountedByIdentifier<Entry>,
    opened: u32,
    note: &Note,
) -> Resent
    ensures { result ≡ record { all = not (opens note.now) && (resent.all && not (confirms_untouched note.now opened (value_under entries.now))); confirmed = not (opens note.now) && (resent.confirmed && not (confirms_untouched note.now opened (value_under entries.now))) } }
{
    let late = confirms(entries, opened, note);
    Resent {
        all: !note.is_open() && (resent.all && !late),
        confirmed: !note.is_open() && (resent.confirmed && !late),
    }
}

// Whether a PUBREC below 0x80 is received for an identifier that wasn't sent again on the
// connection.
fn confirms(entries: &CountedByIdentifier<Entry>, opened: u32, note: &Note) -> bool
    ensures { result ≡ confirms_untouched note.now opened (value_under entries.now) }
{
    match note.received_accepting_pubrec() {
        Some(i) => match entries.get(i) {
            Some(entry) => entry.sent < opened,
            None => false,
        },
        None => false,
    }
}

// Whether some identifier that is open is due.
fn any_due(entries: &CountedByIdentifier<Entry>, opened: u32, excused: Excused) -> bool
    ensures { result ≡ list_any (λ o. resending.is_due opened excused o) (values_of (value_under entries.now)) }
{
    for entry in values_in(entries) {
        if is_due(opened, excused, &entry) {
            return true;
        }
    }
    false
}

// Adds the faults of what is due.
#[tactic(auto, using(crate::proofs::PlacesLaws::keeps_next, crate::proofs::PlacesLaws::keeps_due))]
fn blame_due(
    entries: &CountedByIdentifier<Entry>,
    opened: u32,
    excused: Excused,
    decided: u32,
    faults: &mut Faults,
) -> Result<(), Memory>
    ensures ok { OnOk result (faults.new ≡ blamed_due opened excused decided (values_of (value_under entries.now)) faults.old) }
    ensures memory { OnErr result (Keeps faults.old faults.new) }
    ensures partial { OnErr result (Keeps faults.new (blamed_due opened excused decided (values_of (value_under entries.now)) faults.old)) }
{
    for entry in values_in(entries) {
        blame_one(&entry, opened, excused, decided, faults)?;
    }
    Ok(())
}

// Adds the faults of what is due at a REST that binds, where this is excused by itself. What is
// known not to be due isn't looked for: so an identifier that isn't due is looked at once.
#[tactic(auto, using(mq_fates::proofs::BlameLaws::keeps_same))]
fn settle_all(
    resent: Resent,
    entries: &CountedByIdentifier<Entry>,
    opened: u32,
    excused: Excused,
    decided: u32,
    faults: &mut Faults,
) -> Result<Resent, Memory>
    ensures ok { OnOk result (faults.new ≡ cond resent.all faults.old (blamed_due opened excused decided (values_of (value_under entries.now)) faults.old)) }
    ensures resent { IsResent opened excused (value_under entries.now) resent → IfOk result (IsResent opened excused (value_under entries.now)) }
    ensures memory { OnErr result (Keeps faults.old faults.new) }
    ensures partial { OnErr result (Keeps faults.new (cond resent.all faults.old (blamed_due opened excused decided (values_of (value_under entries.now)) faults.old))) }
{
    if resent.all {
        return Ok(resent);
    }
    blame_due(entries, opened, excused, decided, faults)?;
    Ok(Resent {
        all: !any_due(entries, opened, excused),
        confirmed: resent.confirmed,
    })
}

// Adds the faults of what was confirmed and is due at a REST that binds, where what wasn't
// confirmed is excused. What is known not to be due isn't looked for either.
#[tactic(auto, using(mq_fates::proofs::BlameLaws::keeps_same))]
fn settle_confirmed(
    resent: Resent,
    entries: &CountedByIdentifier<Entry>,
    opened: u32,
    decided: u32,
    faults: &mut Faults,
) -> Result<Resent, Memory>
    ensures ok { OnOk result (faults.new ≡ cond resent.confirmed faults.old (blamed_due opened entire decided (values_of (value_under entries.now)) faults.old)) }
    ensures resent { (single : TheExcused) → IsResent opened single (value_under entries.now) resent → IfOk result (IsResent opened single (value_under entries.now)) }
    ensures memory { OnErr result (Keeps faults.old faults.new) }
    ensures partial { OnErr result (Keeps faults.new (cond resent.confirmed faults.old (blamed_due opened entire decided (values_of (value_under entries.now)) faults.old))) }
{
    if resent.confirmed {
        return Ok(resent);
    }
    blame_due(entries, opened, ENTIRE, decided, faults)?;
    Ok(Resent {
        all: resent.all,
        confirmed: !any_due(entries, opened, ENTIRE),
    })
}

impl Inflight {
    /// Adds the faults of what is due, if it is to be settled.
    #[tactic(auto, using(mq_fates::proofs::BlameLaws::keeps_same))]
    pub(super) fn settle(
        &self,
        settles: bool,
        excused: Excused,
        decided: u32,
        faults: &mut Faults,
    ) -> Result<Resent, Memory>
        ensures ok { OnOk result (faults.new ≡ told settles self.now.again excused self.now.opened decided (values_of (value_under self.now.entries)) faults.old) }
        ensures resent { IsResent self.now.opened (resending.apart excused) (value_under self.now.entries) self.now.again → IfOk result (IsResent self.now.opened (resending.apart excused) (value_under self.now.entries)) }
        ensures memory { OnErr result (Keeps faults.old faults.new) }
        ensures partial { OnErr result (Keeps faults.new (told settles self.now.again excused self.now.opened decided (values_of (value_under self.now.entries)) faults.old)) }
    {
        if !settles {
            return Ok(self.again);
        }
        if excused.all {
            return settle_confirmed(self.again, &self.entries, self.opened, decided, faults);
        }
        settle_all(
            self.again,
            &self.entries,
            self.opened,
            excused.apart(),
            decided,
            faults,
        )
    }
}

/// Whether this is a REST that settles what a resumed session owes: nothing that was sent on the
/// connection waits for its answer.
#[inline(always)]
pub fn settles_now(
    fate: Fate,
    known: bool,
    ended: bool,
    unanswered: &IndexSet<u16>,
    event: NoteRef<'_>,
) -> bool
    ensures { result ≡ (settles fate known ended (note_in event.entry) && (index_set_len unanswered.now == 0)) }
{
    rests_now(fate, known, ended, event) && unanswered.len() == 0
}

// Whether this is a REST that binds, on a resumed connection.
#[inline(always)]
fn rests_now(fate: Fate, known: bool, ended: bool, event: NoteRef<'_>) -> bool
    ensures { result ≡ settles fate known ended (note_in event.entry) }
{
    fate.resumes() && (event.is_rest() && (known && (fate.accepts() && !ended)))
}
