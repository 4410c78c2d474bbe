//! What a second reading of a log keeps to find the evidence of the statements that are judged by
//! the past of a connection.
ghost use Rattle.std.specs.Prelude.{◌≡◌, ◌∷◌, ◌+◌, ℕ, [], List, length, Some, None, OnOk, option_map};
ghost use Rattle.std.specs.Option.{option_or};
ghost use Rattle.std.specs.FinMap as map;
ghost use Rattle.mq_rules.specs.declared.role.Role.TheVariants.{Client, Server};
ghost use Rattle.mq_rules.specs.declared.role.Tested.{Tested as TheTested};
ghost use Rattle.mq_rules.specs.declared.rule.Rule.{Rule as TheRule};
ghost use Rattle.mq_rules.specs.declared.note.Seen.{Seen};
ghost use Rattle.mq_rules.specs.Words.{only};
ghost use Rattle.mq_rules.specs.Moments.{newest, position};
ghost use Rattle.mq_rules.specs.Under.{seen};
ghost use Rattle.mq_evidence.specs.Evidence.{found, reason};
ghost use Rattle.mq_evidence.specs.Findings.{found_at};
ghost use Rattle.mq_evidence.specs.Trailing.{explained_at};
ghost use Rattle.mq_evidence.specs.Handshakes.{IsHandshake};
ghost use Rattle.mq_evidence.specs.Accepted.{IsAccepted};
ghost use Rattle.mq_evidence.specs.Hearing.{IsHearing};
ghost use Rattle.mq_rules.specs.Connections.{connection};
ghost use Rattle.mq_evidence.specs.Evidence.{earliest, is_connack};
ghost use Rattle.mq_evidence.specs.ConnectionTrails.{IsConnectionTrail, connection_turn, latest_connection, is_of_client, is_of_server, is_on_connection};

use crate::accepted::Accepted;
use crate::findings::Findings;
use crate::handshake::Handshake;
use crate::hearing::Hearing;
use crate::turn::Turn;
use mq_log::Place3;
use mq_rules::{Evidence, Faults, Memory, Note, Role, Rule, Tested};

/// What came on the connection, as far as the evidence of a later fault may need it, where
/// connections were accepted, and when the client was last heard.
#[derive(Drop)]
pub struct ConnectionTrail {
    role: Role,
    handshake: Handshake,
    accepted: Accepted,
    hearing: Hearing,
}

// How the next event lies on its connection, whatever its session is.
fn turn_at(at: Place3, note: &Note) -> Turn
    ensures { result ≡ connection_turn at.position note.now }
{
    Turn {
        position: at.position,
        begins: false,
        inside: false,
        opens: note.is_open(),
    }
}

impl ConnectionTrail {
    /// Before any event, for this tested end.
    pub fn new(tested: Tested) -> Self
        ensures { IsConnectionTrail result tested [] }
    {
        ConnectionTrail {
            role: tested.role,
            handshake: Handshake::new(tested.role),
            accepted: Accepted::new(tested.role),
            hearing: Hearing::new(tested.role),
        }
    }

    /// Takes in the next event.
    pub fn take(&mut self, at: Place3, note: &Note)
        ensures { (tested : TheTested) (past : List Seen) → at.position ≡ length past + 1 → IsConnectionTrail self.old tested past → IsConnectionTrail self.new tested (seen at note.now ∷ past) }
    {
        let turn = turn_at(at, note);
        self.handshake.take(turn, note);
        self.accepted.take(turn, note);
        self.hearing.take(at, note);
    }

    // The evidence of a statement on a client.
    fn of_client(&self, rule: Rule, at: Place3, note: &Note) -> Option<Evidence>
        ensures { (past : List Seen) → IsHandshake self.now.handshake Client (latest_connection past) → IsHearing self.now.hearing Client past → result ≡ only (is_of_client rule) (Some (found (reason Client rule) None None (newest (seen at note.now) past))) }
    {
        let handshake = &self.handshake;
        match rule {
            Rule::C03 => Some(handshake.connect_sent()),
            Rule::C11 => Some(handshake.disconnect()),
            Rule::C13 => Some(handshake.connack()),
            Rule::C14 => Some(handshake.size(note)),
            Rule::C15 => Some(handshake.alias(note)),
            Rule::C16 => Some(Handshake::unset_alias(note)),
            Rule::C17 => Some(handshake.qos(note)),
            Rule::C20 => Some(handshake.expiry(note)),
            Rule::C23 => Some(handshake.last()),
            Rule::F01 => Some(handshake.connack()),
            Rule::F02 => Some(handshake.connack()),
            Rule::F03 => Some(handshake.connack()),
            Rule::F04 => Some(handshake.connack()),
            Rule::A01 => Some(handshake.connect()),
            Rule::A02 => Some(handshake.connect()),
            Rule::A03 => Some(handshake.connect()),
            Rule::K01 => Some(self.hearing.of_client(at)),
            _ => None,
        }
    }

    // That of a statement on a server.
    fn of_server(&self, rule: Rule, at: Place3, note: &Note) -> Option<Evidence>
        ensures { (past : List Seen) → IsHandshake self.now.handshake Server (latest_connection past) → IsAccepted self.now.accepted Server past → IsHearing self.now.hearing Server past → result ≡ only (is_of_server rule) (Some (found (reason Server rule) None None (newest (seen at note.now) past))) }
    {
        let handshake = &self.handshake;
        match rule {
            Rule::C06 => Some(handshake.connack_sent()),
            Rule::C07 => Some(handshake.connect()),
            Rule::C08 => Some(self.accepted.earlier(note)),
            Rule::C10 => Some(handshake.connect()),
            Rule::C11 => Some(handshake.disconnect()),
            Rule::C12 => Some(handshake.refusal()),
            Rule::C14 => Some(handshake.size(note)),
            Rule::C15 => Some(handshake.alias(note)),
            Rule::C16 => Some(Handshake::unset_alias(note)),
            Rule::C21 => Some(handshake.connect()),
            Rule::C22 => Some(handshake.connect()),
            Rule::C23 => Some(handshake.last()),
            Rule::F05 => Some(handshake.connect()),
            Rule::F06 => Some(handshake.connect()),
            Rule::A02 => Some(handshake.connect()),
            Rule::A03 => Some(handshake.connect()),
            Rule::K02 => Some(self.hearing.of_server(at)),
            _ => None,
        }
    }

    /// The position of the server's first CONNACK on the connection.
    pub fn connack(&self) -> Option<u32>
        ensures { (tested : TheTested) (past : List Seen) → IsConnectionTrail self.now tested past → result ≡ option_map position (earliest (is_connack tested.role) (connection past)) }
    {
        self.handshake.connack().because
    }

    /// What a fault of this statement at an event conflicts with, if it is one of those that it
    /// finds. It is asked before the event is taken in.
    pub fn find(&self, rule: Rule, at: Place3, note: &Note) -> Option<Evidence>
        ensures { (tested : TheTested) (past : List Seen) → IsConnectionTrail self.now tested past → result ≡ only (is_on_connection tested.role rule) (Some (found (reason tested.role rule) None None (newest (seen at note.now) past))) }
    {
        match self.role {
            Role::Client => self.of_client(rule, at, note),
            Role::Server => self.of_server(rule, at, note),
        }
    }

    /// Adds what the faults of an event conflict with, as far as it finds that. It is asked before
    /// the event is taken in.
    ///
    /// # Errors
    ///
    /// `Memory` if there is no memory for them.
    pub fn explain(
        &self,
        wanted: &Faults,
        at: Place3,
        note: &Note,
        findings: &mut Findings,
    ) -> Result<(), Memory>
        ensures { OnOk result ((tested : TheTested) (past : List Seen) → IsConnectionTrail self.now tested past → (k : ℕ) (r : TheRule)
            → found_at findings.new k r ≡ option_or (explained_at (is_on_connection tested.role) (map.entries wanted.now) at.position k r (found (reason tested.role r) None None (newest (seen at note.now) past))) (found_at findings.old k r)) }
    {
        for (key, _) in wanted.at(at.position) {
            if let Some(evidence) = self.find(key.rule, at, note) {
                findings.add(*key, evidence)?;
            }
        }
        Ok(())
    }
}
