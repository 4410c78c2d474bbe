//! The further statements on one packet and on the past of its connection, in one pass: F01 to F06,
//! V03, V04, V06, and A01 to A03.
//!
//! The client's CONNECT, with its Authentication Method, and the server's CONNACK are kept, and
//! whether a CONNACK was heard.
ghost use Rattle.std.specs.Prelude.{◌≡◌, ◌∷◌, ◌+◌, ◌<◌, ◌&&◌, ◌||◌, not, false, ℕ, [], cond, length, List, Option, Some, None, OnOk, OnErr, nat_lt, option_map, is_some, ◌==◌};
ghost use Rattle.std.specs.Option.{option_or};
ghost use Rattle.mq_rules.specs.declared.role.Role.TheVariants as roles;
ghost use Rattle.mq_rules.specs.declared.role.Tested.{Tested as TheTested};
ghost use Rattle.mq_rules.specs.declared.fate.Fate.{Fate as TheFate};
ghost use Rattle.mq_rules.specs.declared.fate.Fate.TheVariants.{Void};
ghost use Rattle.mq_rules.specs.declared.note.Seen.{Seen as TheSeen};
ghost use Rattle.mq_rules.specs.Words.{is_some_and, is_id};
ghost use Rattle.mq_rules.specs.Notes.{sent_connack as connack_of, sent_disconnect as disconnect_of, sent_publish as publish_of, sent_receipt_code as receipt_code_of, sent_wishes as wishes_of, qos_number as number_of};
ghost use Rattle.mq_rules.specs.FurtherPasts as pasts;
ghost use Rattle.mq_rules.specs.FurtherPasts.{will_in};
ghost use Rattle.mq_rules.specs.Growing.{Judges, JudgesWithin};
ghost use Rattle.mq_connections.specs.Finding.{is_among};
ghost use Rattle.mq_connections.specs.Manners as keeping;
ghost use Rattle.mq_connections.specs.Manners.{CountsManners, IsManners, connack_after, connect_after, further_verdicts, heard_after, manners_weigh, method_after};
ghost use Rattle.mq_rules.specs.Occasions.{places};
ghost use Rattle.mq_rules.specs.Statements.{is_on_further};
ghost use Rattle.mq_rules.specs.Steps.{turns};
ghost use Rattle.mq_rules.specs.Under.{seen};
ghost use Rattle.mq_rules.specs.Burden.{methods_kept};

pub(crate) mod authentication;

use crate::conn::{Verdict, judge_each};
use authentication::{
    breaks_a01, breaks_a02, breaks_a03, has_no_method, hears_connack, method_of, sends_auth,
    tries_a01, tries_a02, tries_a03,
};
use mq_log::Place3;
use mq_rules::{
    Bare, Brisk, ConnackNote, ConnectNote, Faults, Memory, Method, Note, Role, Rule, Tested, Watch,
    WillNote, places_after, qos_number, step_apart,
};
use std::alloc::Global;

/// The Reason Code QoS not supported of a CONNACK (MQTT 5.0, section 3.2.2.2).
const QOS_NOT_SUPPORTED: u8 = 0x9B;

/// The Reason Code Retain not supported of a CONNACK (MQTT 5.0, section 3.2.2.2).
const RETAIN_NOT_SUPPORTED: u8 = 0x9A;

/// The Reason Code No matching subscribers of a PUBACK or PUBREC (MQTT 5.0, sections 3.4.2.1 and
/// 3.5.2.1).
const NO_MATCH: u8 = 0x10;

/// The Reason Code Disconnect with Will Message of a DISCONNECT (MQTT 5.0, section 3.14.2.1).
const WITH_WILL: u8 = 0x04;

/// Watches F01 to F06, V03, V04, V06, and A01 to A03, if the further statements are asked for. It
/// takes in each event of a log.
#[derive(Drop)]
pub struct Manners {
    alloc: Global,
    role: Role,
    /// Whether they are asked for. If not, nothing is kept.
    further: bool,
    /// The client's first CONNECT on the latest connection.
    connect: Option<ConnectNote>,
    /// The server's first CONNACK there.
    connack: Option<ConnackNote>,
    /// Whether a CONNACK was heard there: something of that type was received, or what can't be cut
    /// into packets.
    has_heard_connack: bool,
    /// The Authentication Method of that CONNECT. None before there is a CONNECT.
    method: Option<Method>,
}

impl Manners {
    /// The watcher before the first event, for this tested end.
    pub fn new(alloc: Global, tested: Tested) -> Self
        ensures { ⟦<Manners as Watch>⟧.agrees result tested (Some Void) [] }
    {
        Manners {
            alloc,
            role: tested.role,
            further: tested.further.on_request,
            connect: None,
            connack: None,
            has_heard_connack: false,
            method: None,
        }
    }

    // Takes in an event.
    fn consume(&mut self, note: &Note) -> Result<(), Memory>
        ensures { OnOk result (self.new ≡ record { alloc = self.old.alloc; role = self.old.role; further = self.old.further; connect = connect_after self.old.role self.old.connect note.now; connack = connack_after self.old.role self.old.connack note.now; has_heard_connack = heard_after self.old.has_heard_connack note.now; method = method_after self.old.role self.old.method note.now }) }
    {
        if note.is_open() {
            self.connect = None;
            self.connack = None;
            self.has_heard_connack = false;
            self.method = None;
        }
        self.connect = self.connect.or(note.connect(self.role).copied());
        self.connack = self.connack.or(note.connack(self.role).copied());
        self.has_heard_connack |= hears_connack(note);
        self.name_method(note.connect_method(self.role))
    }

    // Keeps the Authentication Method of a CONNECT, if there is one and none came before it.
    fn name_method(&mut self, named: Option<&Method>) -> Result<(), Memory>
        ensures { OnOk result (self.new ≡ record { alloc = self.old.alloc; role = self.old.role; further = self.old.further; connect = self.old.connect; connack = self.old.connack; has_heard_connack = self.old.has_heard_connack; method = option_or self.old.method (option_map (λ method. method.now) named.entry) }) }
    {
        if self.method.is_some() {
            return Ok(());
        }
        if let Some(named) = named {
            self.method = Some(named.copy(self.alloc)?);
        }
        Ok(())
    }

    // Judges an event, and then takes it in.
    #[inline(never)]
    fn take(&mut self, place: Place3, note: &Note, faults: &mut Faults) -> Result<(), Memory>
        ensures kept { OnOk result (self.new ≡ record { alloc = self.old.alloc; role = self.old.role; further = self.old.further; connect = connect_after self.old.role self.old.connect note.now; connack = connack_after self.old.role self.old.connack note.now; has_heard_connack = heard_after self.old.has_heard_connack note.now; method = method_after self.old.role self.old.method note.now }) }
        ensures ok { OnOk result (Judges (is_among (further_verdicts self.old.role self.old.connect self.old.connack self.old.has_heard_connack self.old.method note.now)) place faults.old faults.new) }
        ensures memory { OnErr result (JudgesWithin (is_among (further_verdicts self.old.role self.old.connect self.old.connack self.old.has_heard_connack self.old.method note.now)) place faults.old faults.new) }
    {
        self.judge(place, note, faults)?;
        self.consume(note)?;
        Ok(())
    }

    // How many Authentication Methods are kept: one at most.
    fn methods_kept(&self) -> usize
        ensures { result ≡ manners_weigh self.now }
    {
        match method_of(self.method.as_ref()) {
            Some(_) => 1,
            None => 0,
        }
    }

    // Judges an event by what is kept.
    fn judge(&self, place: Place3, note: &Note, faults: &mut Faults) -> Result<(), Memory>
        ensures ok { OnOk result (Judges (is_among (further_verdicts self.now.role self.now.connect self.now.connack self.now.has_heard_connack self.now.method note.now)) place faults.old faults.new) }
        ensures memory { OnErr result (JudgesWithin (is_among (further_verdicts self.now.role self.now.connect self.now.connack self.now.has_heard_connack self.now.method note.now)) place faults.old faults.new) }
    {
        match self.role {
            Role::Client => {
                let heard = self.has_heard_connack;
                let method = self.method.as_ref();
                let verdicts = client_verdicts(self.connect, self.connack, heard, method, note);
                judge_each(place, &verdicts, faults)
            }
            Role::Server => {
                let verdicts = server_verdicts(self.connect, self.method.as_ref(), note);
                judge_each(place, &verdicts, faults)
            }
        }
    }
}

impl Watch for Manners {
    ghost agrees = { IsManners };

    ghost takes = { λ tested taken e past. Unit {0} };

    ghost adds = { λ tested e past k r. is_on_further tested r && turns tested e past k r };

    ghost weighs = { manners_weigh };

    ghost bound = { λ tested taken past. methods_kept tested past };

    #[inline(always)]
    fn step(&mut self, at: Place3, note: &Note, faults: &mut Faults) -> Result<(), Memory> {
        if !self.further {
            return Ok(());
        }
        self.take(at, note, faults)?;
        Ok(())
    }

    fn weight(&self) -> usize {
        self.methods_kept()
    }
}

impl Brisk for Manners {
    #[inline(always)]
    fn step_bare(&mut self, at: Place3, bare: Bare<'_>, faults: &mut Faults) -> Result<(), Memory> {
        if !self.further {
            return Ok(());
        }
        step_apart(self, at, bare, faults)?;
        Ok(())
    }
}

// The statements on what a client sends, by what is kept: this CONNECT, this CONNACK, whether a
// CONNACK was heard, and the Authentication Method of the CONNECT.
fn client_verdicts(
    connect: Option<ConnectNote>,
    connack: Option<ConnackNote>,
    has_heard_connack: bool,
    method: Option<&Method>,
    note: &Note,
) -> [Verdict; 10]
    ensures { result ≡ further_verdicts roles.Client connect connack has_heard_connack (option_map (λ method. method.now) method.entry) note.now }
{
    [
        (Rule::F01, retains_anew(note) && lacks_retain(connack)),
        (Rule::F02, uses_wildcard(note) && lacks_wildcards(connack)),
        (
            Rule::F03,
            uses_identifier(note) && lacks_identifiers(connack),
        ),
        (Rule::F04, asks_to_share(note) && lacks_shares(connack)),
        (Rule::V03, misnames_share(note)),
        (Rule::V04, shares_with_no_local(note)),
        (Rule::V06, sends_code_of_servers(note)),
        (Rule::A01, breaks_a01(connect, has_heard_connack, note)),
        (Rule::A02, sends_auth(note) && has_no_method(connect)),
        (Rule::A03, breaks_a03(Role::Client, method, note)),
    ]
}

// The statements on what a server sends, after this CONNECT with this Authentication Method. None
// looks at the CONNACK before.
fn server_verdicts(
    connect: Option<ConnectNote>,
    method: Option<&Method>,
    note: &Note,
) -> [Verdict; 5]
    ensures { result ≡ further_verdicts roles.Server connect None false (option_map (λ method. method.now) method.entry) note.now }
{
    [
        (Rule::F05, breaks_f05(connect, note)),
        (Rule::F06, breaks_f06(connect, note)),
        (Rule::V06, sends_code_of_clients(note)),
        (Rule::A02, breaks_a02(connect, note)),
        (Rule::A03, breaks_a03(Role::Server, method, note)),
    ]
}

// Whether a PUBLISH with DUP 0 is sent.
fn publishes_anew(note: &Note) -> bool
    ensures { result ≡ is_some_and (λ p. not p.duplicate) (publish_of note.now) }
{
    match note.sent_publish() {
        Some(publish) => !publish.duplicate,
        None => false,
    }
}

// F01: whether a PUBLISH with DUP 0 and RETAIN 1 is sent.
fn retains_anew(note: &Note) -> bool
    ensures { result ≡ is_some_and (λ p. not p.duplicate && p.retain) (publish_of note.now) }
{
    match note.sent_publish() {
        Some(publish) => !publish.duplicate && publish.retain,
        None => false,
    }
}

// F02: whether a SUBSCRIBE with a wildcard is sent.
fn uses_wildcard(note: &Note) -> bool
    ensures { result ≡ is_some_and (λ w. w.has_wildcard) (wishes_of note.now) }
{
    match note.sent_wishes() {
        Some(wishes) => wishes.has_wildcard,
        None => false,
    }
}

// F03: whether a SUBSCRIBE with a Subscription Identifier is sent.
fn uses_identifier(note: &Note) -> bool
    ensures { result ≡ is_some_and (λ w. is_some w.subscription_identifier) (wishes_of note.now) }
{
    match note.sent_wishes() {
        Some(wishes) => wishes.subscription_identifier.is_some(),
        None => false,
    }
}

// F04, V03 and V04: whether a SUBSCRIBE is sent that asks for a shared subscription.
fn asks_to_share(note: &Note) -> bool
    ensures { result ≡ is_some_and (λ w. w.has_share) (wishes_of note.now) }
{
    match note.sent_wishes() {
        Some(wishes) => wishes.has_share,
        None => false,
    }
}

// V03: whether it asks for one that has no valid name, or no filter.
fn misnames_share(note: &Note) -> bool
    ensures { result ≡ keeping.finds_V03 note.now }
{
    match note.sent_wishes() {
        Some(wishes) => wishes.has_share && wishes.has_misnamed_share,
        None => false,
    }
}

// V04: whether it asks for one with No Local 1.
fn shares_with_no_local(note: &Note) -> bool
    ensures { result ≡ keeping.finds_V04 note.now }
{
    match note.sent_wishes() {
        Some(wishes) => wishes.has_share && wishes.has_no_local_share,
        None => false,
    }
}

/// Whether the server keeps no retained messages.
pub(crate) fn lacks_retain(connack: Option<ConnackNote>) -> bool
    ensures { result ≡ pasts.lacks_retain connack }
{
    match connack {
        Some(connack) => connack.retain_available == Some(0),
        None => false,
    }
}

// Whether the server takes no wildcards.
fn lacks_wildcards(connack: Option<ConnackNote>) -> bool
    ensures { result ≡ pasts.lacks_wildcards connack }
{
    match connack {
        Some(connack) => connack.wildcard_subscription_available == Some(0),
        None => false,
    }
}

/// Whether the server takes no Subscription Identifiers.
pub(crate) fn lacks_identifiers(connack: Option<ConnackNote>) -> bool
    ensures { result ≡ pasts.lacks_identifiers connack }
{
    match connack {
        Some(connack) => connack.subscription_identifier_available == Some(0),
        None => false,
    }
}

// Whether the server takes no shared subscriptions.
fn lacks_shares(connack: Option<ConnackNote>) -> bool
    ensures { result ≡ pasts.lacks_shares connack }
{
    match connack {
        Some(connack) => connack.shared_subscription_available == Some(0),
        None => false,
    }
}

// Whether only a server may send this Reason Code in a DISCONNECT.
fn is_code_of_servers(code: u8) -> bool
    ensures { result ≡ pasts.is_code_of_servers code }
{
    code == 0x87
        || code == 0x89
        || code == 0x8B
        || code == 0x8D
        || code == 0x8E
        || code == 0x8F
        || (code >= 0x9A && code <= 0xA2)
}

// V06, of a client: whether a Reason Code is sent that only a server may send.
fn sends_code_of_servers(note: &Note) -> bool
    ensures { result ≡ keeping.finds_V06 roles.Client note.now }
{
    disconnects_as_server(note) || receives_as_server(note)
}

// Whether a DISCONNECT is sent with a Reason Code of servers.
fn disconnects_as_server(note: &Note) -> bool
    ensures { result ≡ is_some_and (λ d. pasts.is_code_of_servers d.code) (disconnect_of note.now) }
{
    match note.sent_disconnect() {
        Some(disconnect) => is_code_of_servers(disconnect.code),
        None => false,
    }
}

// Whether a PUBACK or PUBREC is sent with the Reason Code of servers.
fn receives_as_server(note: &Note) -> bool
    ensures { result ≡ is_some_and pasts.is_receipt_of_servers (receipt_code_of note.now) }
{
    match note.sent_receipt_code() {
        Some(code) => code == NO_MATCH,
        None => false,
    }
}

// V06, of a server: whether a DISCONNECT is sent with a Reason Code of clients.
fn sends_code_of_clients(note: &Note) -> bool
    ensures { result ≡ keeping.finds_V06 roles.Server note.now }
{
    match note.sent_disconnect() {
        Some(disconnect) => disconnect.code == WITH_WILL,
        None => false,
    }
}

// F05: a CONNACK accepts, and announces a Maximum QoS below the Will QoS.
fn breaks_f05(connect: Option<ConnectNote>, note: &Note) -> bool
    ensures { result ≡ keeping.finds_F05 connect (connack_of note.now) }
{
    match note.sent_connack() {
        Some(connack) => connack.code == 0 && exceeds(will(connect), connack.maximum_qos),
        None => false,
    }
}

// Whether the QoS of a Will is above this maximum.
fn exceeds(will: Option<WillNote>, maximum_qos: Option<u8>) -> bool
    ensures { result ≡ is_some_and (λ w. is_some_and (λ most. nat_lt most (number_of w.qos)) maximum_qos) will }
{
    match (will, maximum_qos) {
        (Some(will), Some(most)) => most < qos_number(will.qos),
        _ => false,
    }
}

// F06: a CONNACK accepts a Will to be retained, and announces Retain Available 0.
fn breaks_f06(connect: Option<ConnectNote>, note: &Note) -> bool
    ensures { result ≡ keeping.finds_F06 connect (connack_of note.now) }
{
    match note.sent_connack() {
        Some(connack) => {
            connack.code == 0 && connack.retain_available == Some(0) && is_to_be_retained(connect)
        }
        None => false,
    }
}

// Whether the CONNECT has a Will with Will Retain 1.
fn is_to_be_retained(connect: Option<ConnectNote>) -> bool
    ensures { result ≡ is_some_and (λ w. w.retain) (will_in connect) }
{
    match will(connect) {
        Some(will) => will.retain,
        None => false,
    }
}

// The Will of a CONNECT, if it has one.
fn will(connect: Option<ConnectNote>) -> Option<WillNote>
    ensures { result ≡ will_in connect }
{
    connect.and_then(|connect| connect.will)
}

/// How often each further statement on the past of a connection was put to the test.
#[derive(Clone, Copy, Debug, PartialEq, Eq)]
struct MannersPlaces {
    f01: u32,
    f02: u32,
    f03: u32,
    f04: u32,
    f05: u32,
    f06: u32,
    v03: u32,
    v04: u32,
    v06: u32,
    a01: u32,
    a02: u32,
    a03: u32,
}

impl MannersPlaces {
    // The counts of nothing.
    fn none() -> MannersPlaces
        ensures { result ≡ record { f01 = 0; f02 = 0; f03 = 0; f04 = 0; f05 = 0; f06 = 0; v03 = 0; v04 = 0; v06 = 0; a01 = 0; a02 = 0; a03 = 0 } }
    {
        MannersPlaces {
            f01: 0,
            f02: 0,
            f03: 0,
            f04: 0,
            f05: 0,
            f06: 0,
            v03: 0,
            v04: 0,
            v06: 0,
            a01: 0,
            a02: 0,
            a03: 0,
        }
    }

    // Counts the statements that an event puts to the test, by what is kept before it.
    fn count(&mut self, manners: &Manners, note: &Note, position: u32)
        ensures f01 { self.old.f01 < position → self.new.f01 ≡ cond (keeping.tries_F01 manners.now.role manners.now.connack note.now) 1 0 + self.old.f01 }
        ensures f02 { self.old.f02 < position → self.new.f02 ≡ cond (keeping.tries_F02 manners.now.role manners.now.connack note.now) 1 0 + self.old.f02 }
        ensures f03 { self.old.f03 < position → self.new.f03 ≡ cond (keeping.tries_F03 manners.now.role manners.now.connack note.now) 1 0 + self.old.f03 }
        ensures f04 { self.old.f04 < position → self.new.f04 ≡ cond (keeping.tries_F04 manners.now.role manners.now.connack note.now) 1 0 + self.old.f04 }
        ensures f05 { self.old.f05 < position → self.new.f05 ≡ cond (keeping.tries_F05 manners.now.role manners.now.connect note.now) 1 0 + self.old.f05 }
        ensures f06 { self.old.f06 < position → self.new.f06 ≡ cond (keeping.tries_F06 manners.now.role manners.now.connect note.now) 1 0 + self.old.f06 }
        ensures v03 { self.old.v03 < position → self.new.v03 ≡ cond (keeping.tries_shares manners.now.role note.now) 1 0 + self.old.v03 }
        ensures v04 { self.old.v04 < position → self.new.v04 ≡ cond (keeping.tries_shares manners.now.role note.now) 1 0 + self.old.v04 }
        ensures v06 { self.old.v06 < position → self.new.v06 ≡ cond (keeping.tries_V06 manners.now.role note.now) 1 0 + self.old.v06 }
        ensures a01 { self.old.a01 < position → self.new.a01 ≡ cond (keeping.tries_A01 manners.now.role manners.now.connect manners.now.has_heard_connack note.now) 1 0 + self.old.a01 }
        ensures a02 { self.old.a02 < position → self.new.a02 ≡ cond (keeping.tries_A02 manners.now.role manners.now.connect note.now) 1 0 + self.old.a02 }
        ensures a03 { self.old.a03 < position → self.new.a03 ≡ cond (keeping.tries_A03 manners.now.role manners.now.method note.now) 1 0 + self.old.a03 }
    {
        let role = manners.role;
        let (connect, connack) = (manners.connect, manners.connack);
        let heard = manners.has_heard_connack;
        self.f01 = places_after(tries_f01(role, connack, note), self.f01, position);
        self.f02 = places_after(tries_f02(role, connack, note), self.f02, position);
        self.f03 = places_after(tries_f03(role, connack, note), self.f03, position);
        self.f04 = places_after(tries_f04(role, connack, note), self.f04, position);
        self.f05 = places_after(tries_f05(role, connect, note), self.f05, position);
        self.f06 = places_after(tries_f06(role, connect, note), self.f06, position);
        self.v03 = places_after(tries_shares(role, note), self.v03, position);
        self.v04 = places_after(tries_shares(role, note), self.v04, position);
        self.v06 = places_after(tries_v06(role, note), self.v06, position);
        self.a01 = places_after(tries_a01(role, connect, heard, note), self.a01, position);
        self.a02 = places_after(tries_a02(role, connect, note), self.a02, position);
        let method = manners.method.as_ref();
        self.a03 = places_after(tries_a03(role, method, note), self.a03, position);
    }
}

// Whether an event puts F01 to the test.
fn tries_f01(role: Role, connack: Option<ConnackNote>, note: &Note) -> bool
    ensures { result ≡ keeping.tries_F01 role connack note.now }
{
    match role {
        Role::Client => publishes_anew(note) && lacks_retain(connack),
        Role::Server => false,
    }
}

// Whether an event puts F02 to the test.
fn tries_f02(role: Role, connack: Option<ConnackNote>, note: &Note) -> bool
    ensures { result ≡ keeping.tries_F02 role connack note.now }
{
    match role {
        Role::Client => note.sent_wishes().is_some() && lacks_wildcards(connack),
        Role::Server => false,
    }
}

// Whether an event puts F03 to the test.
fn tries_f03(role: Role, connack: Option<ConnackNote>, note: &Note) -> bool
    ensures { result ≡ keeping.tries_F03 role connack note.now }
{
    match role {
        Role::Client => note.sent_wishes().is_some() && lacks_identifiers(connack),
        Role::Server => false,
    }
}

// Whether an event puts F04 to the test.
fn tries_f04(role: Role, connack: Option<ConnackNote>, note: &Note) -> bool
    ensures { result ≡ keeping.tries_F04 role connack note.now }
{
    match role {
        Role::Client => note.sent_wishes().is_some() && lacks_shares(connack),
        Role::Server => false,
    }
}

// Whether an event puts V03 and V04 to the test.
fn tries_shares(role: Role, note: &Note) -> bool
    ensures { result ≡ keeping.tries_shares role note.now }
{
    match role {
        Role::Client => asks_to_share(note),
        Role::Server => false,
    }
}

// Whether an event puts V06 to the test.
fn tries_v06(role: Role, note: &Note) -> bool
    ensures { result ≡ keeping.tries_V06 role note.now }
{
    match role {
        Role::Client => note.sent_disconnect().is_some() || note.sent_receipt_code().is_some(),
        Role::Server => note.sent_disconnect().is_some(),
    }
}

// Whether an event puts F05 to the test.
fn tries_f05(role: Role, connect: Option<ConnectNote>, note: &Note) -> bool
    ensures { result ≡ keeping.tries_F05 role connect note.now }
{
    match role {
        Role::Client => false,
        Role::Server => limits_qos(note.sent_connack()) && will(connect).is_some(),
    }
}

// Whether there is a CONNACK with a Maximum QoS, or one that refuses a QoS.
fn limits_qos(connack: Option<&ConnackNote>) -> bool
    ensures { result ≡ is_some_and (λ c. is_some c.maximum_qos || (c.code == 155)) (option_map (λ c. c.now) connack.entry) }
{
    match connack {
        Some(connack) => connack.maximum_qos.is_some() || connack.code == QOS_NOT_SUPPORTED,
        None => false,
    }
}

// Whether an event puts F06 to the test.
fn tries_f06(role: Role, connect: Option<ConnectNote>, note: &Note) -> bool
    ensures { result ≡ keeping.tries_F06 role connect note.now }
{
    match role {
        Role::Client => false,
        Role::Server => retains_nothing(note.sent_connack()) && will(connect).is_some(),
    }
}

// Whether there is a CONNACK with Retain Available 0, or one that refuses to retain.
fn retains_nothing(connack: Option<&ConnackNote>) -> bool
    ensures { result ≡ is_some_and (λ c. is_id 0 c.retain_available || (c.code == 154)) (option_map (λ c. c.now) connack.entry) }
{
    match connack {
        Some(connack) => {
            connack.retain_available == Some(0) || connack.code == RETAIN_NOT_SUPPORTED
        }
        None => false,
    }
}

/// The watcher of the same statements, and how often each of them was put to the test.
#[derive(Drop)]
pub struct CountingManners {
    manners: Manners,
    places: MannersPlaces,
}

impl CountingManners {
    /// The watcher before the first event, for this tested end.
    pub fn new(alloc: Global, tested: Tested) -> Self
        ensures { ⟦<CountingManners as Watch>⟧.agrees result tested (Some Void) [] }
    {
        CountingManners {
            manners: Manners::new(alloc, tested),
            places: MannersPlaces::none(),
        }
    }

    /// How many places a further statement on the past of a connection has. None if it isn't one.
    pub fn places(&self, rule: Rule) -> Option<u32>
        ensures { (tested : TheTested) (taken : Option TheFate) (past : List TheSeen) → ⟦<CountingManners as Watch>⟧.agrees self.now tested taken past → result ≡ cond (is_on_further tested rule) (Some (places tested past rule)) None }
    {
        if rule == Rule::F01 {
            return Some(self.places.f01);
        }
        if rule == Rule::F02 {
            return Some(self.places.f02);
        }
        if rule == Rule::F03 {
            return Some(self.places.f03);
        }
        if rule == Rule::F04 {
            return Some(self.places.f04);
        }
        if rule == Rule::F05 {
            return Some(self.places.f05);
        }
        if rule == Rule::F06 {
            return Some(self.places.f06);
        }
        if rule == Rule::V03 {
            return Some(self.places.v03);
        }
        if rule == Rule::V04 {
            return Some(self.places.v04);
        }
        if rule == Rule::V06 {
            return Some(self.places.v06);
        }
        if rule == Rule::A01 {
            return Some(self.places.a01);
        }
        if rule == Rule::A02 {
            return Some(self.places.a02);
        }
        if rule == Rule::A03 {
            return Some(self.places.a03);
        }
        None
    }
}

impl Watch for CountingManners {
    ghost agrees = { λ s tested taken past. IsManners s.manners tested taken past × CountsManners s.places tested past };

    ghost takes = { λ tested taken e past. Unit {0} };

    ghost adds = { λ tested e past k r. is_on_further tested r && turns tested e past k r };

    ghost weighs = { λ s. manners_weigh s.manners };

    ghost bound = { λ tested taken past. methods_kept tested past };

    fn step(&mut self, at: Place3, note: &Note, faults: &mut Faults) -> Result<(), Memory> {
        if !self.manners.further {
            return Ok(());
        }
        self.places.count(&self.manners, note, at.position);
        self.manners.take(at, note, faults)?;
        Ok(())
    }

    fn weight(&self) -> usize {
        self.manners.methods_kept()
    }
}

impl Brisk for CountingManners {
    #[inline(always)]
    fn step_bare(&mut self, at: Place3, bare: Bare<'_>, faults: &mut Faults) -> Result<(), Memory> {
        if !self.manners.further {
            return Ok(());
        }
        step_apart(self, at, bare, faults)?;
        Ok(())
    }
}
