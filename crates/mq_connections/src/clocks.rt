//! The further statements on times, in one pass: K01 and K02.
//!
//! Of the latest connection the Keep Alive is kept, when the client was last heard, and whether its
//! silence was found to be too long since then.
ghost use Rattle.std.specs.Prelude.{◌≡◌, ◌+◌, ◌<◌, ◌==◌, ◌&&◌, ◌||◌, not, [], cond, List, Option, Some, None, OnOk, OnErr, option_map, is_some, unwrap_or};
ghost use Rattle.std.specs.Option.{option_and_then};
ghost use Rattle.mq_rules.specs.declared.role.Tested.{Tested as TheTested};
ghost use Rattle.mq_rules.specs.declared.fate.Fate.{Fate as TheFate};
ghost use Rattle.mq_rules.specs.declared.fate.Fate.TheVariants.{Void};
ghost use Rattle.mq_rules.specs.declared.note.Seen.{Seen as TheSeen};
ghost use Rattle.mq_rules.specs.Words.{is_some_and};
ghost use Rattle.mq_rules.specs.Notes.{connect_of, disconnect_in, is_typed, received_fields, sent_disconnect};
ghost use Rattle.mq_rules.specs.KeepAlive as words;
ghost use Rattle.mq_rules.specs.Growing.{Judges, JudgesWithin};
ghost use Rattle.mq_rules.specs.Occasions.{places};
ghost use Rattle.mq_rules.specs.Statements.{is_on_clock};
ghost use Rattle.mq_rules.specs.Steps.{turns};
ghost use Rattle.mq_connections.specs.Finding.{is_among};
ghost use Rattle.mq_connections.specs.Clocks as keeping;
ghost use Rattle.mq_connections.specs.Clocks.{CountsClocks, IsClocks, clock_after, clock_verdicts, nothing_heard};

use crate::conn::{Verdict, judge_each};
use mq_log::Place3;
use mq_rules::{
    Bare, Brisk, ConnackNote, Faults, ItemNote, Memory, Note, Role, Rule, Tested, Watch,
    client_limit, is_large, places_after, server_limit, step_apart,
};

/// What is kept of the latest connection.
#[derive(Clone, Copy, Debug, PartialEq, Eq)]
struct Clock {
    /// Whether it is open.
    is_open: bool,
    /// The Keep Alive of the client's first CONNECT there, in seconds.
    asked: Option<u16>,
    /// The Keep Alive by the server's first CONNACK there, in seconds: 0 switches it off.
    keep_alive: Option<u16>,
    /// When the client was last heard there, in microseconds.
    heard: Option<u64>,
    /// Whether an event came since then when its silence was too long.
    was_long: bool,
    /// Whether nothing is judged there any more: either end sent a DISCONNECT, or what the client
    /// sends can't be cut into packets.
    has_ended: bool,
}

impl Clock {
    // What is kept before any connection.
    fn new() -> Clock
        ensures { result ≡ nothing_heard }
    {
        Clock {
            is_open: false,
            asked: None,
            keep_alive: None,
            heard: None,
            was_long: false,
            has_ended: false,
        }
    }

    // The Keep Alive, in seconds: 0 before there is one.
    fn seconds(&self) -> u16
        ensures { result ≡ keeping.kept_seconds self.now }
    {
        self.keep_alive.unwrap_or(0)
    }

    // For how long the client hasn't been heard at this time, in microseconds.
    fn silence(&self, now: u64) -> u64
        ensures { result ≡ keeping.silence_at self.now now }
    {
        match self.heard {
            Some(heard) => now.saturating_sub(heard),
            None => 0,
        }
    }

    // Whether the client is listened to.
    fn is_listening(&self) -> bool
        ensures { result ≡ keeping.is_listening self.now }
    {
        self.is_open && self.seconds() != 0 && !self.has_ended
    }

    // Whether its silence is longer at this time than it may be.
    fn is_too_long(&self, role: Role, now: u64) -> bool
        ensures { result ≡ keeping.is_too_long role self.now now }
    {
        limit(role, self.seconds()) < self.silence(now)
    }

    // Whether the client is heard with this event.
    fn hears(&self, role: Role, note: &Note) -> bool
        ensures { result ≡ keeping.hears role self.now note.now }
    {
        client_item(role, note).is_some()
            || (note.connack(role).is_some() && self.keep_alive.is_none())
    }

    // Whether the statement that binds this end is false at the event.
    fn finds_silence(&self, role: Role, now: u64, note: &Note) -> bool
        ensures { result ≡ keeping.finds_silence role self.now now note.now }
    {
        self.is_listening()
            && self.is_too_long(role, now)
            && !self.was_long
            && !is_spared(role, note)
    }

    // Whether an event at this time puts it to the test.
    fn tries_silence(&self, role: Role, now: u64) -> bool
        ensures { result ≡ keeping.tries_silence role self.now now }
    {
        self.is_listening() && test_limit(role, self.seconds()) < self.silence(now)
    }

    // Takes in an event: at an OPEN a new connection begins. What is said of a silence there is of
    // the connection before, and of no account, since the first CONNACK ends it.
    fn consume(&mut self, role: Role, now: u64, note: &Note)
        ensures { self.new ≡ clock_after role self.old now note.now }
    {
        let opens = note.is_open();
        let hears = self.hears(role, note);
        let was_long = self.is_too_long(role, now) || (!opens && self.was_long);
        *self = Clock {
            is_open: opens || (!note.is_close() && self.is_open),
            asked: seconds_unless(opens, self.asked).or(asked(role, note)),
            keep_alive: seconds_unless(opens, self.keep_alive).or(answered(role, self.asked, note)),
            heard: heard_after(opens, hears, self.heard, now),
            was_long: !hears && was_long,
            has_ended: ends_listening(role, note) || (!opens && self.has_ended),
        };
    }
}

// A Keep Alive, unless a new connection begins.
fn seconds_unless(opens: bool, seconds: Option<u16>) -> Option<u16>
    ensures { result ≡ cond opens None seconds }
{
    if opens {
        return None;
    }
    seconds
}

// When the client was last heard, with one event more.
fn heard_after(opens: bool, hears: bool, heard: Option<u64>, now: u64) -> Option<u64>
    ensures { result ≡ cond hears (Some now) (cond opens None heard) }
{
    if hears {
        return Some(now);
    }
    if opens {
        return None;
    }
    heard
}

// For how long a client may be silent, and for how long a server may leave it at that, in
// microseconds.
fn limit(role: Role, seconds: u16) -> u64
    ensures { result ≡ keeping.limit role seconds }
{
    match role {
        Role::Client => client_limit(seconds),
        Role::Server => server_limit(seconds),
    }
}

// The silence beyond which the statement that binds this end is put to the test, in microseconds.
fn test_limit(role: Role, seconds: u16) -> u64
    ensures { result ≡ keeping.test_limit role seconds }
{
    let seconds = u64::from(seconds);
    match role {
        Role::Client => seconds * 500_000,
        Role::Server => seconds * 1_500_000,
    }
}

// What the client sends with an event.
fn client_item(role: Role, note: &Note) -> Option<&ItemNote>
    ensures { option_map (λ item. item.now) result ≡ words.client_item role note.now }
{
    match role {
        Role::Client => note.sent_item(),
        Role::Server => note.received_item(),
    }
}

// The Keep Alive of a CONNECT of the client, in seconds.
fn asked(role: Role, note: &Note) -> Option<u16>
    ensures { result ≡ option_map (λ connect. connect.keep_alive) (connect_of role note.now) }
{
    match note.connect(role) {
        Some(connect) => Some(connect.keep_alive),
        None => None,
    }
}

// The Keep Alive by a CONNACK of the server, in seconds, after a CONNECT with this one.
fn answered(role: Role, asked: Option<u16>, note: &Note) -> Option<u16>
    ensures { result ≡ keeping.answered role asked note.now }
{
    match note.connack(role) {
        Some(connack) => Some(granted(connack, asked)),
        None => None,
    }
}

// The Keep Alive by this CONNACK, likewise.
fn granted(connack: &ConnackNote, asked: Option<u16>) -> u16
    ensures { result ≡ keeping.granted asked connack.now }
{
    if connack.code != 0 {
        return 0;
    }
    connack.server_keep_alive.unwrap_or(asked.unwrap_or(0))
}

// Whether nothing after the event is judged on its connection.
fn ends_listening(role: Role, note: &Note) -> bool
    ensures { result ≡ words.ends_listening role note.now }
{
    disconnects(note) || loses_client(role, note)
}

// Whether either end sends a DISCONNECT.
fn disconnects(note: &Note) -> bool
    ensures { result ≡ (is_some (sent_disconnect note.now) || is_some (option_and_then disconnect_in (received_fields note.now))) }
{
    note.sent_disconnect().is_some() || receives_disconnect(note)
}

// Whether a DISCONNECT is received.
fn receives_disconnect(note: &Note) -> bool
    ensures { result ≡ is_some (option_and_then disconnect_in (received_fields note.now)) }
{
    match note.received_fields() {
        Some(fields) => fields.disconnect().is_some(),
        None => false,
    }
}

// Whether what the client sends can't be cut into packets from this event on.
fn loses_client(role: Role, note: &Note) -> bool
    ensures { result ≡ is_some_and (λ item. not (is_typed item)) (words.client_item role note.now) }
{
    match client_item(role, note) {
        Some(item) => !item.is_typed(),
        None => false,
    }
}

// Whether the event may be late without a fault of this end: it took its time.
fn is_spared(role: Role, note: &Note) -> bool
    ensures { result ≡ keeping.is_spared role note.now }
{
    match role {
        Role::Client => takes_time(note) || cuts_packet(note),
        Role::Server => takes_time(note),
    }
}

// Whether something large is sent or received.
fn takes_time(note: &Note) -> bool
    ensures { result ≡ words.takes_time note.now }
{
    has_large(note.sent_item()) || has_large(note.received_item())
}

// Whether there is an item, and it is large.
fn has_large(item: Option<&ItemNote>) -> bool
    ensures { result ≡ is_some_and words.is_large_item (option_map (λ item. item.now) item.entry) }
{
    match item {
        Some(item) => is_large_item(item),
        None => false,
    }
}

// Whether an item is large.
fn is_large_item(item: &ItemNote) -> bool
    ensures { result ≡ words.is_large_item item.now }
{
    match item {
        ItemNote::Packet(packet) => is_large(u64::from(packet.size)),
        ItemNote::Bad { is_large, .. } => *is_large,
        ItemNote::Lost => false,
    }
}

// Whether a CLOSE cuts off a packet that the tested end had begun to send.
fn cuts_packet(note: &Note) -> bool
    ensures { result ≡ words.cuts_packet note.now }
{
    match note {
        Note::Close { cuts_packet, .. } => *cuts_packet,
        _ => false,
    }
}

// The statement that binds this end.
fn own_rule(role: Role) -> Rule
    ensures { result ≡ keeping.own_rule role }
{
    match role {
        Role::Client => Rule::K01,
        Role::Server => Rule::K02,
    }
}

// That statement, with whether it is false at the event.
fn verdicts(role: Role, clock: Clock, now: u64, note: &Note) -> [Verdict; 1]
    ensures { result ≡ clock_verdicts role clock now note.now }
{
    [(own_rule(role), clock.finds_silence(role, now, note))]
}

/// Watches K01 and K02, if the further statements on times are asked for. It takes in each event of
/// a log.
#[derive(Drop)]
pub struct Clocks {
    role: Role,
    /// Whether they are asked for. If not, nothing is kept.
    with_times: bool,
    clock: Clock,
}

impl Clocks {
    /// The watcher before the first event, for this tested end.
    pub fn new(tested: Tested) -> Self
        ensures { ⟦<Clocks as Watch>⟧.agrees result tested (Some Void) [] }
    {
        Clocks {
            role: tested.role,
            with_times: tested.further.with_times,
            clock: Clock::new(),
        }
    }

    // Judges an event, and then takes it in.
    #[inline(never)]
    fn take(&mut self, at: Place3, note: &Note, faults: &mut Faults) -> Result<(), Memory>
        ensures kept { OnOk result (self.new ≡ record { role = self.old.role; with_times = self.old.with_times; clock = clock_after self.old.role self.old.clock at.moment note.now }) }
        ensures ok { OnOk result (Judges (is_among (clock_verdicts self.old.role self.old.clock at.moment note.now)) at faults.old faults.new) }
        ensures memory { OnErr result (JudgesWithin (is_among (clock_verdicts self.old.role self.old.clock at.moment note.now)) at faults.old faults.new) }
    {
        self.judge(at, note, faults)?;
        self.clock.consume(self.role, at.moment, note);
        Ok(())
    }

    // Judges an event by what is kept.
    fn judge(&self, at: Place3, note: &Note, faults: &mut Faults) -> Result<(), Memory>
        ensures ok { OnOk result (Judges (is_among (clock_verdicts self.now.role self.now.clock at.moment note.now)) at faults.old faults.new) }
        ensures memory { OnErr result (JudgesWithin (is_among (clock_verdicts self.now.role self.now.clock at.moment note.now)) at faults.old faults.new) }
    {
        let verdicts = verdicts(self.role, self.clock, at.moment, note);
        judge_each(at, &verdicts, faults)
    }
}

impl Watch for Clocks {
    ghost agrees = { IsClocks };

    ghost takes = { λ tested taken e past. Unit {0} };

    ghost adds = { λ tested e past k r. is_on_clock tested r && turns tested e past k r };

    ghost weighs = { λ s. 0 };

    ghost bound = { λ tested taken past. 0 };

    #[inline(always)]
    fn step(&mut self, at: Place3, note: &Note, faults: &mut Faults) -> Result<(), Memory> {
        if !self.with_times {
            return Ok(());
        }
        self.take(at, note, faults)?;
        Ok(())
    }

    fn weight(&self) -> usize {
        0
    }
}

impl Brisk for Clocks {
    #[inline(always)]
    fn step_bare(&mut self, at: Place3, bare: Bare<'_>, faults: &mut Faults) -> Result<(), Memory> {
        if !self.with_times {
            return Ok(());
        }
        step_apart(self, at, bare, faults)?;
        Ok(())
    }
}

/// How often each further statement on times was put to the test.
#[derive(Clone, Copy, Debug, PartialEq, Eq)]
struct ClocksPlaces {
    k01: u32,
    k02: u32,
}

impl ClocksPlaces {
    // The counts of nothing.
    fn none() -> ClocksPlaces
        ensures { result ≡ record { k01 = 0; k02 = 0 } }
    {
        ClocksPlaces { k01: 0, k02: 0 }
    }

    // Counts the statements that an event puts to the test, by what is kept before it.
    fn count(&mut self, clocks: &Clocks, at: Place3)
        ensures k01 { self.old.k01 < at.position → self.new.k01 ≡ cond (keeping.tries_K01 clocks.now.role clocks.now.clock at.moment) 1 0 + self.old.k01 }
        ensures k02 { self.old.k02 < at.position → self.new.k02 ≡ cond (keeping.tries_K02 clocks.now.role clocks.now.clock at.moment) 1 0 + self.old.k02 }
    {
        let (role, clock) = (clocks.role, clocks.clock);
        self.k01 = places_after(tries_k01(role, clock, at.moment), self.k01, at.position);
        self.k02 = places_after(tries_k02(role, clock, at.moment), self.k02, at.position);
    }
}

// Whether an event at this time puts K01 to the test.
fn tries_k01(role: Role, clock: Clock, now: u64) -> bool
    ensures { result ≡ keeping.tries_K01 role clock now }
{
    match role {
        Role::Client => clock.tries_silence(Role::Client, now),
        Role::Server => false,
    }
}

// Whether an event at this time puts K02 to the test.
fn tries_k02(role: Role, clock: Clock, now: u64) -> bool
    ensures { result ≡ keeping.tries_K02 role clock now }
{
    match role {
        Role::Client => false,
        Role::Server => clock.tries_silence(Role::Server, now),
    }
}

/// The watcher of the same statements, and how often each of them was put to the test.
#[derive(Drop)]
pub struct CountingClocks {
    clocks: Clocks,
    places: ClocksPlaces,
}

impl CountingClocks {
    /// The watcher before the first event, for this tested end.
    pub fn new(tested: Tested) -> Self
        ensures { ⟦<CountingClocks as Watch>⟧.agrees result tested (Some Void) [] }
    {
        CountingClocks {
            clocks: Clocks::new(tested),
            places: ClocksPlaces::none(),
        }
    }

    /// How many places a further statement on times has. None if it isn't one.
    pub fn places(&self, rule: Rule) -> Option<u32>
        ensures { (tested : TheTested) (taken : Option TheFate) (past : List TheSeen) → ⟦<CountingClocks as Watch>⟧.agrees self.now tested taken past → result ≡ cond (is_on_clock tested rule) (Some (places tested past rule)) None }
    {
        if rule == Rule::K01 {
            return Some(self.places.k01);
        }
        if rule == Rule::K02 {
            return Some(self.places.k02);
        }
        None
    }
}

impl Watch for CountingClocks {
    ghost agrees = { λ s tested taken past. IsClocks s.clocks tested taken past × CountsClocks s.places tested past };

    ghost takes = { λ tested taken e past. Unit {0} };

    ghost adds = { λ tested e past k r. is_on_clock tested r && turns tested e past k r };

    ghost weighs = { λ s. 0 };

    ghost bound = { λ tested taken past. 0 };

    fn step(&mut self, at: Place3, note: &Note, faults: &mut Faults) -> Result<(), Memory> {
        if !self.clocks.with_times {
            return Ok(());
        }
        self.places.count(&self.clocks, at);
        self.clocks.take(at, note, faults)?;
        Ok(())
    }

    fn weight(&self) -> usize {
        0
    }
}

impl Brisk for CountingClocks {
    #[inline(always)]
    fn step_bare(&mut self, at: Place3, bare: Bare<'_>, faults: &mut Faults) -> Result<(), Memory> {
        if !self.clocks.with_times {
            return Ok(());
        }
        step_apart(self, at, bare, faults)?;
        Ok(())
    }
}
