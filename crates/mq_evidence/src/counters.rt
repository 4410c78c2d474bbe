//! What is counted on the connection (MQTT 5.0, sections 3.12, 3.13 and 4.9): the evidence of S07
//! and E7R.
ghost use Rattle.std.specs.Prelude.{◌≡◌, ◌<◌, ◌+◌, ◌-◌, ◌∷◌, ◌&&◌, ◌||◌, [], List, cond, not};
ghost use Rattle.mq_rules.specs.declared.role.Role.{Role as TheRole};
ghost use Rattle.mq_rules.specs.declared.note.Seen.{Seen};
ghost use Rattle.mq_rules.specs.Moments.{Moment, position};
ghost use Rattle.mq_rules.specs.Connections.{connection};
ghost use Rattle.mq_rules.specs.Counter.{in_flight_before};
ghost use Rattle.mq_evidence.specs.Stretches.{Stretches, Comes};
ghost use Rattle.mq_evidence.specs.Handshakes.{IsHandshake, quota_evidence};
ghost use Rattle.mq_evidence.specs.Counters as counting;
ghost use Rattle.mq_evidence.specs.Counters.{IsCounters, pings_evidence};

use crate::because::it_with;
use crate::handshake::{Handshake, is_connack};
use crate::tables::keep_again;
use crate::turn::Turn;
use mq_rules::{Evidence, Note, Numbers, Role};

/// What is counted on the connection.
#[derive(Drop)]
pub struct Counters {
    role: Role,
    /// Whether the server's CONNACK came.
    greeted: bool,
    /// How many PUBLISHes of QoS above 0 are in flight.
    in_flight: u64,
    /// How many PINGREQs were received, and where the latest one is.
    pingreqs: u64,
    pingreq_at: Option<u32>,
    /// How many PINGRESPs were sent.
    pingresps: u64,
}

// Whether the next event counts: for a client those after the CONNACK, for a server all.
fn counts(role: Role, greeted: bool) -> bool
    ensures { result ≡ counting.counted_by role greeted }
{
    match role {
        Role::Client => greeted,
        Role::Server => true,
    }
}

// One more, of which there are fewer than events.
fn more(old: u64, position: u32) -> u64
    ensures { old < position → result ≡ old + 1 }
{
    if old < u64::from(position) {
        return old + 1;
    }
    old
}

// How many there are after an event, which may begin a connection.
fn counted(passes: bool, opens: bool, old: u64, position: u32) -> u64
    ensures { old < position → result ≡ counting.counted passes opens old }
{
    let old = if opens { 0 } else { old };
    if passes { more(old, position) } else { old }
}

// How many are in flight after a packet that counts, or one that sets an identifier free.
fn flown_by(counted: bool, delivers: bool, closes: bool, old: u64, position: u32) -> u64
    ensures { old < position → result ≡ cond counted (cond delivers (old + 1) (cond closes (old - 1) old)) old }
{
    if !counted {
        return old;
    }
    if delivers {
        return more(old, position);
    }
    if closes {
        return old.saturating_sub(1);
    }
    old
}

// How many are in flight after an event.
fn flown(counted: bool, note: &Note, old: u64, position: u32) -> u64
    ensures { old < position → result ≡ counting.flown counted note.now old }
{
    if note.is_open() {
        return 0;
    }
    flown_by(
        counted,
        note.delivery().is_some(),
        note.closer().is_some(),
        old,
        position,
    )
}

// Whether the CONNACK came, after an event, which may begin a connection.
fn greeted_after(opens: bool, greeted: bool, greets: bool) -> bool
    ensures { result ≡ ((not opens && greeted) || greets) }
{
    (!opens && greeted) || greets
}

impl Counters {
    /// Nothing came; the tested end has this role.
    pub fn new(role: Role) -> Self
        ensures { IsCounters result role [] }
    {
        Counters {
            role,
            greeted: false,
            in_flight: 0,
            pingreqs: 0,
            pingreq_at: None,
            pingresps: 0,
        }
    }

    /// Takes in the next event.
    pub fn take(&mut self, turn: Turn, note: &Note)
        ensures { (role : TheRole) (m : Moment) → Comes turn note.now m → IsCounters self.old role m.past → IsCounters self.new role (m.event ∷ m.past) }
    {
        let at = turn.position;
        let opens = note.is_open();
        let asks = note.is_received_pingreq();
        let answers = note.is_sent_pingresp();
        let greets = is_connack(self.role, note);
        let counted_now = counts(self.role, self.greeted);
        self.in_flight = flown(counted_now, note, self.in_flight, at);
        self.greeted = greeted_after(opens, self.greeted, greets);
        self.pingreqs = counted(asks, opens, self.pingreqs, at);
        self.pingreq_at = keep_again(opens, true, asks, at, self.pingreq_at);
        self.pingresps = counted(answers, opens, self.pingresps, at);
    }

    /// Where the peer announced its Receive Maximum, how many PUBLISHes are in flight with that of
    /// the next event, which is at this position, and that maximum: S07.
    pub fn quota(&self, at: u32, handshake: &Handshake) -> Evidence
        ensures { (role : TheRole) (k : Moment) (s : Stretches) → position k ≡ at → IsCounters self.now role k.past → IsHandshake handshake.now role s → s.connection ≡ connection k.past
            → result ≡ quota_evidence role (in_flight_before role k + 1) (connection k.past) }
    {
        let in_flight = more(self.in_flight, at);
        handshake.quota(in_flight)
    }

    /// The latest PINGREQ, how many came, and how many PINGRESPs were sent: E7R.
    pub fn pings(&self) -> Evidence
        ensures { (role : TheRole) (past : List Seen) → IsCounters self.now role past → result ≡ pings_evidence (connection past) }
    {
        it_with(self.pingreq_at, Numbers::Two(self.pingreqs, self.pingresps))
    }
}
