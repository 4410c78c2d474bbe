//! The further statements that a later REST shows, in one pass: C24, D01 to D03, and D05.
//!
//! With some event a server comes to owe an answer, or that it closes the connection. Until a REST
//! shows what came of that, the event's place is kept.
ghost use Rattle.std.specs.Prelude.{◌≡◌, ◌&&◌, ◌||◌, not, false, [], cond, List, Option, Some, None, option_map, OnOk, OnErr};
ghost use Rattle.mq_rules.specs.declared.role.Tested.{Tested as TheTested};
ghost use Rattle.mq_rules.specs.declared.role.Role.TheVariants as roles;
ghost use Rattle.mq_rules.specs.declared.fate.Fate.{Fate as TheFate};
ghost use Rattle.mq_rules.specs.declared.fate.Fate.TheVariants.{Void};
ghost use Rattle.mq_rules.specs.declared.note.Seen.{Seen as TheSeen};
ghost use Rattle.mq_rules.specs.declared.rule.Rule.TheVariants.{C24, D01, D02, D03, D05};
ghost use Rattle.mq_rules.specs.Words.{is_some_and};
ghost use Rattle.mq_rules.specs.Notes.{connect_of, is_broken, is_open};
ghost use Rattle.mq_packet.specs.declared.packet.PacketType.TheVariants as types;
ghost use Rattle.mq_rules.specs.Notes as notes;
ghost use Rattle.mq_rules.specs.Pasts.{is_sent_refusal};
ghost use Rattle.mq_rules.specs.FurtherRests as rests;
ghost use Rattle.mq_rules.specs.ReceiveMaximum as maximum;
ghost use Rattle.mq_connections.specs.Duties as keeping;
ghost use Rattle.mq_connections.specs.Duties.{blamed, blamed_all, nothing_said, talk_after, BlamesWithin, CountsDuties, CountsTrial, IsDuties};
ghost use Rattle.mq_rules.specs.Occasions.{places};
ghost use Rattle.mq_rules.specs.Statements.{is_on_later};
ghost use Rattle.mq_rules.specs.Steps.{turns};
ghost use Rattle.mq_rules.specs.Burden.{further_burden};
ghost use Rattle.mq_rules.specs.Connections.{IsOnConnection};
ghost use Rattle.mq_connections.specs.Terms.{TermsNext};
ghost use Rattle.mq_connections.specs.Unfinished.{UnfinishedNext};

mod terms;
mod unfinished;

use mq_log::Place3;
use mq_packet::{PacketRule, PacketType};
use mq_rules::{
    Bare, Brisk, ConnectNote, Fault, FaultKey, Faults, ItemNote, Memory, Note, PacketFields, Role,
    Rule, Tested, Watch, places_after, step_apart,
};
use std::alloc::Global;
use terms::Terms;
use unfinished::Unfinished;

/// The least Reason Code of a CONNACK or a PUBREC that refuses (MQTT 5.0, sections 3.2.2.2 and
/// 3.5.2.1).
const LEAST_REFUSAL: u8 = 0x80;

/// The size of the smallest CONNACK, in bytes: it has no properties (MQTT 5.0, section 3.2).
const SMALLEST_CONNACK: u32 = 5;

/// What an event is by what is kept of the connection before it.
#[derive(Clone, Copy, Debug, PartialEq, Eq)]
struct Found {
    /// Whether it is a Protocol Error.
    is_error: bool,
    /// Whether it is a PUBLISH above the server's Receive Maximum.
    is_excess: bool,
}

/// What is kept of the latest connection.
#[derive(Clone, Copy, Debug, PartialEq, Eq)]
struct Talk {
    /// Whether a CONNECT was received there.
    has_connect: bool,
    /// Whether one was received there after another.
    has_repeat: bool,
    /// Whether a Malformed Packet was received there.
    has_malformed: bool,
    /// Whether a packet was received there that is a Protocol Error.
    has_error: bool,
    /// Whether a PUBLISH was received there above the server's Receive Maximum.
    has_excess: bool,
    /// Whether the server refused a message of QoS 2 there.
    has_refusal: bool,
    /// Whether either end said that it closes the connection.
    has_ended: bool,
    /// Whether the server did.
    has_goodbye: bool,
    /// Whether a CONNECT no longer has to be answered: it is, or the server may have stopped there.
    has_settled: bool,
    /// Whether the server sent an AUTH, and received none after it.
    awaits_auth: bool,
    /// Where the first CONNECT was received, if it has to be answered.
    unanswered: Option<Place3>,
    /// Where the first Malformed Packet was received, if the server then had to close the
    /// connection.
    malformed: Option<Place3>,
    /// Where the second CONNECT was received, if the server then had to close the connection.
    repeated: Option<Place3>,
    /// Where the first Protocol Error was received, if the server then had to close the connection.
    mistaken: Option<Place3>,
    /// Where the first PUBLISH above the Receive Maximum was received, if the server then had to
    /// close the connection.
    excessive: Option<Place3>,
}

impl Talk {
    // What is kept of a connection on which nothing has come yet.
    fn new() -> Talk
        ensures { result ≡ nothing_said }
    {
        Talk {
            has_connect: false,
            has_repeat: false,
            has_malformed: false,
            has_error: false,
            has_excess: false,
            has_refusal: false,
            has_ended: false,
            has_goodbye: false,
            has_settled: false,
            awaits_auth: false,
            unanswered: None,
            malformed: None,
            repeated: None,
            mistaken: None,
            excessive: None,
        }
    }

    // Whether with this event the server has to answer a CONNECT.
    fn finds_unanswered(&self, note: &Note) -> bool
        ensures { result ≡ keeping.finds_unanswered self.now note.now }
    {
        note.receives_type(PacketType::Connect) && !self.has_connect && asks_for_connack(note)
    }

    // Whether with this event the server has to close the connection, after a Malformed Packet.
    fn finds_malformed(&self, note: &Note) -> bool
        ensures { result ≡ keeping.finds_malformed self.now note.now }
    {
        receives_malformed(note) && !self.has_malformed && !self.has_ended
    }

    // The same after a second CONNECT.
    fn finds_repeated(&self, note: &Note) -> bool
        ensures { result ≡ keeping.finds_repeated self.now note.now }
    {
        note.receives_type(PacketType::Connect)
            && self.has_connect
            && !self.has_repeat
            && !self.has_ended
    }

    // The same after a Protocol Error. The flag says whether the event is one.
    fn finds_mistake(&self, is_error: bool) -> bool
        ensures { result ≡ keeping.finds_mistake self.now is_error }
    {
        is_error && !self.has_error && !self.has_ended
    }

    // The same after a PUBLISH above the Receive Maximum. The flag says whether the event is one.
    fn finds_excessive(&self, is_excess: bool) -> bool
        ensures { result ≡ keeping.finds_excessive self.now is_excess }
    {
        is_excess && !self.has_excess && !self.has_ended
    }

    // Takes in an event of the connection, which is such an error or not.
    fn follow(&mut self, at: Place3, note: &Note, found: Found)
        ensures { self.new ≡ keeping.followed self.old at note.now found }
    {
        let connects = note.receives_type(PacketType::Connect);
        *self = Talk {
            has_connect: self.has_connect | connects,
            has_repeat: self.has_repeat | (connects & self.has_connect),
            has_malformed: self.has_malformed | receives_malformed(note),
            has_error: self.has_error | found.is_error,
            has_excess: self.has_excess | found.is_excess,
            has_refusal: self.has_refusal | refuses_message(note),
            has_ended: self.has_ended | ends_talk(note),
            has_goodbye: self.has_goodbye | says_goodbye(note),
            has_settled: self.has_settled | settles_connect(note),
            awaits_auth: awaits_auth_after(self.awaits_auth, note),
            unanswered: place_after(self.unanswered, self.finds_unanswered(note), at),
            malformed: place_after(self.malformed, self.finds_malformed(note), at),
            repeated: place_after(self.repeated, self.finds_repeated(note), at),
            mistaken: place_after(self.mistaken, self.finds_mistake(found.is_error), at),
            excessive: place_after(self.excessive, self.finds_excessive(found.is_excess), at),
        };
    }

    // Takes in an event: at an OPEN a new connection begins.
    fn consume(&mut self, at: Place3, note: &Note, found: Found)
        ensures { self.new ≡ talk_after self.old at note.now found }
    {
        if note.is_open() {
            *self = Talk::new();
        }
        self.follow(at, note, found);
    }

    // Whether the event is a REST, and the CONNECT would still have to be answered.
    fn leaves_now(&self, note: &Note) -> bool
        ensures { result ≡ keeping.leaves_now self.now note.now }
    {
        note.is_rest() && !self.has_settled && !self.awaits_auth
    }

    // Whether the event is a REST, and the server hasn't said that it closes the connection.
    fn stays_now(&self, note: &Note) -> bool
        ensures { result ≡ keeping.stays_now self.now note.now }
    {
        note.is_rest() && !self.has_goodbye
    }

    // The same; and no message of QoS 2 was refused.
    fn stays_unrefused(&self, note: &Note) -> bool
        ensures { result ≡ keeping.stays_unrefused self.now note.now }
    {
        self.stays_now(note) && !self.has_refusal
    }

    // Whether the event shows what comes of an error, and no message of QoS 2 was refused.
    fn tries_excess(&self, note: &Note) -> bool
        ensures { result ≡ keeping.tries_excess self.now note.now }
    {
        shows_outcome(note) && !self.has_refusal
    }

    // Whether the event answers the CONNECT, or shows that it is left without an answer.
    fn tries_answer(&self, note: &Note) -> bool
        ensures { result ≡ keeping.tries_answer self.now note.now }
    {
        note.sent_connack().is_some() || self.leaves_now(note)
    }

    // Judges an event by what is kept.
    fn judge(&self, place: Place3, note: &Note, faults: &mut Faults) -> Result<(), Memory>
        ensures ok { OnOk result (faults.new ≡ blamed_all self.now note.now place faults.old) }
        ensures memory { OnErr result (BlamesWithin self.now note.now place faults.old faults.new) }
    {
        let stays = self.stays_now(note);
        blame(
            Rule::C24,
            self.unanswered,
            self.leaves_now(note),
            place,
            faults,
        )?;
        blame(Rule::D01, self.malformed, stays, place, faults)?;
        blame(Rule::D02, self.repeated, stays, place, faults)?;
        blame(Rule::D03, self.mistaken, stays, place, faults)?;
        blame(
            Rule::D05,
            self.excessive,
            self.stays_unrefused(note),
            place,
            faults,
        )?;
        Ok(())
    }
}

// Adds the fault of a statement at this place, if there is one and the event at the other place
// shows it.
fn blame(
    rule: Rule,
    owed: Option<Place3>,
    shown: bool,
    place: Place3,
    faults: &mut Faults,
) -> Result<(), Memory>
    ensures ok { OnOk result (faults.new ≡ blamed rule owed shown place faults.old) }
    ensures memory { OnErr result (faults.new ≡ faults.old) }
{
    let Some(owed) = owed else {
        return Ok(());
    };
    if !shown {
        return Ok(());
    }
    let key = FaultKey {
        position: owed.position,
        rule,
    };
    let fault = Fault {
        decided: place.position,
        record_no: owed.record_no,
        offset: None,
    };
    faults.add(key, fault)?;
    Ok(())
}

// The place of what is owed, with one event more.
fn place_after(owed: Option<Place3>, found: bool, at: Place3) -> Option<Place3>
    ensures { result ≡ cond found (Some at) owed }
{
    if found {
        return Some(at);
    }
    owed
}

// Whether the server waits for an AUTH, with one event more.
fn awaits_auth_after(awaits_auth: bool, note: &Note) -> bool
    ensures { result ≡ (notes.sends_type types.Auth note.now || (not (notes.receives_type types.Auth note.now) && awaits_auth)) }
{
    note.sends_type(PacketType::Auth) || (!note.receives_type(PacketType::Auth) && awaits_auth)
}

// Whether a CONNECT is received whose client takes a CONNACK.
fn asks_for_connack(note: &Note) -> bool
    ensures { result ≡ is_some_and rests.takes_connack (connect_of roles.Server note.now) }
{
    match note.connect(Role::Server) {
        Some(connect) => takes_connack(connect),
        None => false,
    }
}

// Whether the client takes a CONNACK, by its Maximum Packet Size.
fn takes_connack(connect: &ConnectNote) -> bool
    ensures { result ≡ rests.takes_connack connect.now }
{
    match connect.maximum_packet_size {
        Some(size) => size >= SMALLEST_CONNACK,
        None => true,
    }
}

// Whether a packet that breaks this rule can't be read as the standard lays it out.
fn is_of_format(rule: PacketRule) -> bool
    ensures { result ≡ rests.is_of_format rule }
{
    !matches!(
        rule,
        PacketRule::W03
            | PacketRule::W08
            | PacketRule::W09
            | PacketRule::W13
            | PacketRule::W14
            | PacketRule::W15
            | PacketRule::W20
    )
}

// Whether an item is a Malformed Packet.
fn is_malformed(item: &ItemNote) -> bool
    ensures { result ≡ rests.is_malformed item.now }
{
    match item {
        ItemNote::Packet(_packet) => false,
        ItemNote::Bad { rule, .. } => is_of_format(*rule),
        ItemNote::Lost => true,
    }
}

// Whether a Malformed Packet is received.
fn receives_malformed(note: &Note) -> bool
    ensures { result ≡ rests.receives_malformed note.now }
{
    match note.received_item() {
        Some(item) => is_malformed(item),
        None => false,
    }
}

// Whether what is sent, or received, breaks a rule.
fn breaks_rule(item: Option<&ItemNote>) -> bool
    ensures { result ≡ is_some_and is_broken (option_map (λ item. item.now) item.entry) }
{
    match item {
        Some(item) => item.packet().is_none(),
        None => false,
    }
}

// Whether a CONNECT is answered, or may have been the last that the server looked at.
fn settles_connect(note: &Note) -> bool
    ensures { result ≡ rests.settles_connect note.now }
{
    note.sent_connack().is_some()
        || ends_talk(note)
        || breaks_rule(note.sent_item())
        || breaks_rule(note.received_item())
}

// Whether the server says that it closes the connection.
fn says_goodbye(note: &Note) -> bool
    ensures { result ≡ rests.says_goodbye note.now }
{
    note.sent_disconnect().is_some() || refuses(note)
}

// Whether a CONNACK is sent that refuses.
fn refuses(note: &Note) -> bool
    ensures { result ≡ is_sent_refusal note.now }
{
    match note.sent_connack() {
        Some(connack) => connack.code >= LEAST_REFUSAL,
        None => false,
    }
}

// Whether a PUBREC of 0x80 or more is sent.
fn refuses_message(note: &Note) -> bool
    ensures { result ≡ maximum.refuses_message note.now }
{
    match note.sent_fields() {
        Some(fields) => is_refusing_pubrec(fields),
        None => false,
    }
}

fn is_refusing_pubrec(fields: &PacketFields) -> bool
    ensures { result ≡ maximum.is_refusing_pubrec fields.now }
{
    match fields {
        PacketFields::Pubrec { code, .. } => *code >= LEAST_REFUSAL,
        _ => false,
    }
}

// Whether either end says that it closes the connection, where the server is tested.
fn ends_talk(note: &Note) -> bool
    ensures { result ≡ rests.ends_talk note.now }
{
    note.client_disconnect(Role::Server).is_some() || says_goodbye(note)
}

// Whether an event shows what comes of an error before it.
fn shows_outcome(note: &Note) -> bool
    ensures { result ≡ rests.shows_outcome note.now }
{
    says_goodbye(note) || note.is_close() || note.is_rest()
}

/// Watches C24, D01 to D03, and D05, if the further statements are asked for and a server is
/// tested. It takes in each event of a log in which nothing is sent or received between two
/// connections.
#[derive(Drop)]
pub struct Duties {
    /// Whether they bind the tested end. If not, nothing is kept.
    is_bound: bool,
    talk: Talk,
    terms: Terms,
    unfinished: Unfinished,
}

impl Duties {
    /// The watcher before the first event, for this tested end.
    pub fn new(alloc: Global, tested: Tested) -> Self
        ensures { ⟦<Duties as Watch>⟧.agrees result tested (Some Void) [] }
    {
        Duties {
            is_bound: Rule::D02.is_judged(tested),
            talk: Talk::new(),
            terms: Terms::new(alloc),
            unfinished: Unfinished::new(alloc),
        }
    }

    // What the event is by what is kept.
    fn find(&self, note: &Note) -> Found
        ensures { result ≡ keeping.found self.now note.now }
    {
        Found {
            is_error: self.terms.finds_error(self.talk.has_connect, note),
            is_excess: self.unfinished.finds_excess(self.terms.connack(), note),
        }
    }

    // Judges an event, and then takes it in.
    #[inline(never)]
    fn take(&mut self, place: Place3, note: &Note, faults: &mut Faults) -> Result<(), Memory>
        ensures bound { OnOk result (self.new.is_bound ≡ self.old.is_bound) }
        ensures talk { OnOk result (self.new.talk ≡ talk_after self.old.talk place note.now (keeping.found self.old note.now)) }
        ensures terms { OnOk result (TermsNext self.old.terms self.new.terms note.now) }
        ensures unfinished { OnOk result (UnfinishedNext self.old.unfinished self.new.unfinished note.now) }
        ensures ok { OnOk result (faults.new ≡ blamed_all self.old.talk note.now place faults.old) }
        ensures memory { OnErr result (BlamesWithin self.old.talk note.now place faults.old faults.new) }
    {
        self.talk.judge(place, note, faults)?;
        let found = self.find(note);
        self.talk.consume(place, note, found);
        self.terms.consume(note)?;
        self.unfinished.consume(note)?;
        Ok(())
    }
}

impl Watch for Duties {
    ghost agrees = { IsDuties };

    ghost takes = { λ tested taken e past. IsOnConnection e past };

    ghost adds = { λ tested e past k r. is_on_later tested r && turns tested e past k r };

    ghost weighs = { keeping.duties_weigh };

    ghost bound = { λ tested taken past. further_burden tested past };

    #[inline(always)]
    fn step(&mut self, at: Place3, note: &Note, faults: &mut Faults) -> Result<(), Memory> {
        if !self.is_bound {
            return Ok(());
        }
        self.take(at, note, faults)?;
        Ok(())
    }

    fn weight(&self) -> usize {
        self.terms
            .aliases_kept()
            .saturating_add(self.unfinished.identifiers_kept())
    }
}

impl Brisk for Duties {
    #[inline(always)]
    fn step_bare(&mut self, at: Place3, bare: Bare<'_>, faults: &mut Faults) -> Result<(), Memory> {
        if !self.is_bound {
            return Ok(());
        }
        step_apart(self, at, bare, faults)?;
        Ok(())
    }
}

/// How often a statement was put to the test.
#[derive(Clone, Copy, Debug, PartialEq, Eq)]
struct Trial {
    places: u32,
    /// Whether the server owes something on the latest connection, and nothing has shown yet what
    /// comes of that.
    waits: bool,
}

impl Trial {
    // The count of nothing.
    fn none() -> Trial
        ensures { result ≡ record { places = 0; waits = false } }
    {
        Trial {
            places: 0,
            waits: false,
        }
    }

    // Counts an event, which puts the statement to the test or not, makes the server owe something
    // or not, and opens a connection or not.
    fn count(&mut self, tried: bool, found: bool, opens: bool, position: u32)
        ensures { CountsTrial self.old self.new tried found opens position }
    {
        let shown = self.waits && tried;
        self.places = places_after(shown, self.places, position);
        let stays = self.waits && !opens && !tried;
        self.waits = found || stays;
    }
}

/// How often each of them was put to the test.
#[derive(Clone, Copy, Debug, PartialEq, Eq)]
struct DutiesPlaces {
    c24: Trial,
    d01: Trial,
    d02: Trial,
    d03: Trial,
    d05: Trial,
}

impl DutiesPlaces {
    // The counts of nothing.
    fn none() -> DutiesPlaces
        ensures { result ≡ record { c24 = record { places = 0; waits = false }; d01 = record { places = 0; waits = false }; d02 = record { places = 0; waits = false }; d03 = record { places = 0; waits = false }; d05 = record { places = 0; waits = false } } }
    {
        DutiesPlaces {
            c24: Trial::none(),
            d01: Trial::none(),
            d02: Trial::none(),
            d03: Trial::none(),
            d05: Trial::none(),
        }
    }

    // Counts the statements that an event puts to the test, by what is kept before it.
    fn count(&mut self, talk: &Talk, note: &Note, found: Found, position: u32)
        ensures c24 { CountsTrial self.old.c24 self.new.c24 (keeping.tries_answer talk.now note.now) (keeping.finds_unanswered talk.now note.now) (is_open note.now) position }
        ensures d01 { CountsTrial self.old.d01 self.new.d01 (rests.shows_outcome note.now) (keeping.finds_malformed talk.now note.now) (is_open note.now) position }
        ensures d02 { CountsTrial self.old.d02 self.new.d02 (rests.shows_outcome note.now) (keeping.finds_repeated talk.now note.now) (is_open note.now) position }
        ensures d03 { CountsTrial self.old.d03 self.new.d03 (rests.shows_outcome note.now) (keeping.finds_mistake talk.now found.is_error) (is_open note.now) position }
        ensures d05 { CountsTrial self.old.d05 self.new.d05 (keeping.tries_excess talk.now note.now) (keeping.finds_excessive talk.now found.is_excess) (is_open note.now) position }
    {
        let opens = note.is_open();
        let tried = shows_outcome(note);
        self.c24.count(
            talk.tries_answer(note),
            talk.finds_unanswered(note),
            opens,
            position,
        );
        self.d01
            .count(tried, talk.finds_malformed(note), opens, position);
        self.d02
            .count(tried, talk.finds_repeated(note), opens, position);
        self.d03
            .count(tried, talk.finds_mistake(found.is_error), opens, position);
        self.d05.count(
            talk.tries_excess(note),
            talk.finds_excessive(found.is_excess),
            opens,
            position,
        );
    }
}

/// The watcher of the same statements, and how often each of them was put to the test.
#[derive(Drop)]
pub struct CountingDuties {
    duties: Duties,
    places: DutiesPlaces,
}

impl CountingDuties {
    /// The watcher before the first event, for this tested end.
    pub fn new(alloc: Global, tested: Tested) -> Self
        ensures { ⟦<CountingDuties as Watch>⟧.agrees result tested (Some Void) [] }
    {
        CountingDuties {
            duties: Duties::new(alloc, tested),
            places: DutiesPlaces::none(),
        }
    }

    /// How many places a statement that a later event shows has. None if it isn't one.
    pub fn places(&self, rule: Rule) -> Option<u32>
        ensures { (tested : TheTested) (taken : Option TheFate) (past : List TheSeen) → ⟦<CountingDuties as Watch>⟧.agrees self.now tested taken past → result ≡ cond (is_on_later tested rule) (Some (places tested past rule)) None }
    {
        match rule {
            Rule::C24 => Some(self.places.c24.places),
            Rule::D01 => Some(self.places.d01.places),
            Rule::D02 => Some(self.places.d02.places),
            Rule::D03 => Some(self.places.d03.places),
            Rule::D05 => Some(self.places.d05.places),
            _ => None,
        }
    }
}

impl Watch for CountingDuties {
    ghost agrees = { λ s tested taken past. IsDuties s.duties tested taken past × CountsDuties s.places tested past };

    ghost takes = { λ tested taken e past. IsOnConnection e past };

    ghost adds = { λ tested e past k r. is_on_later tested r && turns tested e past k r };

    ghost weighs = { λ s. keeping.duties_weigh s.duties };

    ghost bound = { λ tested taken past. further_burden tested past };

    fn step(&mut self, at: Place3, note: &Note, faults: &mut Faults) -> Result<(), Memory> {
        if !self.duties.is_bound {
            return Ok(());
        }
        let found = self.duties.find(note);
        self.places
            .count(&self.duties.talk, note, found, at.position);
        self.duties.take(at, note, faults)?;
        Ok(())
    }

    fn weight(&self) -> usize {
        self.duties.weight()
    }
}

impl Brisk for CountingDuties {
    #[inline(always)]
    fn step_bare(&mut self, at: Place3, bare: Bare<'_>, faults: &mut Faults) -> Result<(), Memory> {
        if !self.duties.is_bound {
            return Ok(());
        }
        step_apart(self, at, bare, faults)?;
        Ok(())
    }
}
