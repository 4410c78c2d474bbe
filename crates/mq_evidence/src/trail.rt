//! What a second reading of a log keeps to find the evidence of the statements on sessions, each
//! event taken in with the fate of its connection.
ghost use Rattle.std.specs.Prelude.{◌≡◌, ◌∷◌, ◌+◌, ℕ, [], List, length, Option, Some, None, is_some, true, false, OnOk, IfOk};
ghost use Rattle.mq_rules.specs.declared.role.Tested.{Tested as TheTested};
ghost use Rattle.mq_log.specs.declared.place.Place3.{Place3 as ThePlace};
ghost use Rattle.mq_rules.specs.declared.fate.Fate.{Fate as TheFate};
ghost use Rattle.mq_rules.specs.declared.fate.Fate.TheVariants.{Void};
ghost use Rattle.mq_rules.specs.declared.rule.Rule.TheVariants.{S01, S02, S03, S04, S05, B01, B02, E3A, L1, L2, L3};
ghost use Rattle.mq_rules.specs.declared.note.Seen.{Seen};
ghost use Rattle.mq_rules.specs.Moments.{newest};
ghost use Rattle.mq_rules.specs.Under.{seen, IsUnder, fate_before};
ghost use Rattle.mq_rules.specs.declared.role.Role.{Role as TheRole};
ghost use Rattle.mq_evidence.specs.Evidence.{found, reason, by_asked, by_order, by_matching};
ghost use Rattle.mq_evidence.specs.Stretches.{Stretches, stretches};
ghost use Rattle.mq_evidence.specs.Senders.{IsSenders};
ghost use Rattle.mq_evidence.specs.Overtaking.{opened_under};
ghost use Rattle.mq_evidence.specs.Exchange.{exchange_of};
ghost use Rattle.mq_evidence.specs.Asked.{IsAsked};
ghost use Rattle.mq_evidence.specs.Unanswered.{IsUnanswered};
ghost use Rattle.std.specs.FinMap as map;
ghost use Rattle.std.specs.Option.{option_or};
ghost use Rattle.mq_rules.specs.declared.rule.Rule.{Rule as TheRule};
ghost use Rattle.mq_rules.specs.Rules.{same_rule};
ghost use Rattle.mq_rules.specs.Words.{only};
ghost use Rattle.mq_evidence.specs.Findings.{found_at};
ghost use Rattle.mq_evidence.specs.Trailing.{IsTrail, explained_at, finds};

use crate::answering::{Answering, Waiting};
use crate::asked::Asked;
use crate::begun::Begun;
use crate::counters::Counters;
use crate::exchange::Exchange;
use crate::findings::Findings;
use crate::handshake::Handshake;
use crate::matching::{Matching, matching_if, take_matching};
use crate::overtaking::Overtaking;
use crate::received::Received;
use crate::senders::Senders;
use crate::session::Session;
use crate::subscriptions::{Subscriptions, kept_if, take_if_kept};
use crate::unanswered::Unanswered;
use mq_log::Place3;
use mq_rules::{Evidence, Fate, Faults, Memory, Note, Role, Rule, Tested};
use std::alloc::Global;

/// What came in the session and on the connection, as far as the evidence of a later fault may need
/// it.
#[derive(Drop)]
pub struct SessionTrail {
    role: Role,
    session: Session,
    begun: Begun,
    handshake: Handshake,
    counters: Counters,
    senders: Senders,
    answering: Answering,
    waiting: Waiting,
    received: Received,
    overtaking: Overtaking,
    /// The Topic Filters of the session, and the topics of what is sent. They are much, and only
    /// the evidence of B01 and B02 needs them: a trail that isn't asked for it keeps none.
    subscriptions: Option<Subscriptions>,
    /// The last SUBSCRIBE of each Topic Filter that was asked for in the session. Only the evidence
    /// of B09, P01, P02, R01 and R02 needs it: a trail that isn't asked for it keeps none.
    matching: Option<Matching>,
}

impl SessionTrail {
    /// Before any event, for this tested end. It finds evidence of B01 and B02 only if it is to
    /// keep the Topic Filters that stand, and of B09, P01, P02, R01 and R02 only if it is to keep
    /// those that were asked for.
    pub fn new(alloc: Global, tested: Tested, keeps_standing: bool, keeps_asked: bool) -> Self
        ensures agrees { IsTrail result tested (Some Void) [] }
        ensures keeps { is_some result.subscriptions ≡ keeps_standing }
        ensures keeps_asked { is_some result.matching ≡ keeps_asked }
    {
        SessionTrail {
            role: tested.role,
            session: Session::new(),
            begun: Begun::new(tested.role),
            handshake: Handshake::new(tested.role),
            counters: Counters::new(tested.role),
            senders: Senders::new(alloc),
            answering: Answering::new(alloc),
            waiting: Waiting::new(alloc),
            received: Received::new(alloc),
            overtaking: Overtaking::new(alloc),
            subscriptions: kept_if(alloc, keeps_standing),
            matching: matching_if(alloc, keeps_asked),
        }
    }

    /// Takes in the next event, of a connection that has this fate.
    ///
    /// # Errors
    ///
    /// `Memory` if there is no memory for what it keeps. Its state is then of no use.
    pub fn take(&mut self, at: Place3, fate: Fate, note: &Note) -> Result<(), Memory>
        ensures keeps { OnOk result (is_some self.new.subscriptions ≡ is_some self.old.subscriptions) }
        ensures keeps_asked { OnOk result (is_some self.new.matching ≡ is_some self.old.matching) }
        ensures agrees { OnOk result ((tested : TheTested) (decided : ℕ) (past : List Seen) → IsUnder tested fate decided (seen at note.now) past → IsTrail self.old tested (fate_before tested fate (seen at note.now) past) past → IsTrail self.new tested (Some fate) (seen at note.now ∷ past)) }
    {
        let turn = self.session.turn(at, fate, note);
        self.begun.take(turn, note);
        self.handshake.take(turn, note);
        self.counters.take(turn, note);
        let opened = self.opened_by(note);
        self.overtaking.take(turn, note, opened)?;
        self.senders.take(turn, note)?;
        self.answering.take(turn, note)?;
        self.waiting.take(turn, note)?;
        self.received.take(turn, note)?;
        take_if_kept(&mut self.subscriptions, turn, note)?;
        take_matching(&mut self.matching, turn, note)?;
        self.session.take(fate, note);
        Ok(())
    }

    // Where what the event sends again was first sent, if it is open.
    fn opened_by(&self, note: &Note) -> Option<u32>
        ensures { (s : Stretches) → IsSenders self.now.senders s → result ≡ opened_under note.now s.session }
    {
        match note.resend() {
            Some(i) => self.senders.held(i),
            None => None,
        }
    }

    // The evidence of S01: what holds the identifier that the event takes.
    fn of_taking(&self, note: &Note) -> Evidence
        ensures { (tested : TheTested) (at : ThePlace) (fate : TheFate) (past : List Seen) → IsTrail self.now tested (Some fate) past → result ≡ found (reason tested.role S01) (Some fate) None (newest (seen at note.now) past) }
    {
        match note.taken_identifier(self.role) {
            Some(i) => Evidence::of(self.senders.holder(i)),
            None => Evidence::nothing(),
        }
    }

    // That of S02: what became of what the event sends again.
    fn of_resending(&self, note: &Note) -> Evidence
        ensures { (tested : TheTested) (at : ThePlace) (fate : TheFate) (past : List Seen) → IsTrail self.now tested (Some fate) past → result ≡ found (reason tested.role S02) (Some fate) None (newest (seen at note.now) past) }
    {
        match note.resend() {
            Some(i) => Evidence::of(self.senders.end_of_sent(self.begun.connack(), i)),
            None => Evidence::nothing(),
        }
    }

    // That of S03: where it was sent before on the connection.
    fn of_repeating(&self, note: &Note) -> Evidence
        ensures { (tested : TheTested) (at : ThePlace) (fate : TheFate) (past : List Seen) → IsTrail self.now tested (Some fate) past → result ≡ found (reason tested.role S03) (Some fate) None (newest (seen at note.now) past) }
    {
        match note.resend() {
            Some(i) => Evidence::of(self.senders.delivery(i)),
            None => Evidence::nothing(),
        }
    }

    // That of S04: the PUBREL.
    fn of_receding(&self, note: &Note) -> Evidence
        ensures { (tested : TheTested) (at : ThePlace) (fate : TheFate) (past : List Seen) → IsTrail self.now tested (Some fate) past → result ≡ found (reason tested.role S04) (Some fate) None (newest (seen at note.now) past) }
    {
        match note.resend() {
            Some(i) => Evidence::of(self.senders.pubrel(i)),
            None => Evidence::nothing(),
        }
    }

    // That of S05: the PUBLISH that was sent again too early.
    fn of_following(&self, note: &Note) -> Evidence
        ensures { (tested : TheTested) (at : ThePlace) (fate : TheFate) (past : List Seen) → IsTrail self.now tested (Some fate) past → result ≡ found (reason tested.role S05) (Some fate) None (newest (seen at note.now) past) }
    {
        match note.resend() {
            Some(i) => self.overtaking.evidence(self.senders.opener(i)),
            None => Evidence::nothing(),
        }
    }

    // That of B01, if Topic Filters are kept.
    fn of_unasked(&self) -> Option<Evidence>
        ensures { (tested : TheTested) (e : Seen) (fate : TheFate) (past : List Seen) → IsTrail self.now tested (Some fate) past → result ≡ only (is_some self.now.subscriptions) (Some (found (reason tested.role B01) (Some fate) None (newest e past))) }
    {
        match &self.subscriptions {
            Some(subscriptions) => Some(subscriptions.of_unasked()),
            None => None,
        }
    }

    // That of B02, if they are.
    fn of_exceeding(&self, note: &Note) -> Result<Option<Evidence>, Memory>
        ensures { IfOk result (λ evidence. (tested : TheTested) (at : ThePlace) (fate : TheFate) (past : List Seen) → IsTrail self.now tested (Some fate) past → evidence ≡ only (is_some self.now.subscriptions) (Some (found (reason tested.role B02) (Some fate) None (newest (seen at note.now) past)))) }
    {
        let Some(subscriptions) = &self.subscriptions else {
            return Ok(None);
        };
        let evidence = subscriptions.of_exceeding(note)?;
        Ok(Some(evidence))
    }

    // That of B09, P01, P02, R01 and R02, if the filters that were asked for are kept.
    fn of_delivering(&self, note: &Note) -> Option<Evidence>
        ensures { (tested : TheTested) (at : ThePlace) (fate : TheFate) (past : List Seen) → IsTrail self.now tested (Some fate) past → result ≡ only (is_some self.now.matching) (Some (found (by_matching tested.role) (Some fate) None (newest (seen at note.now) past))) }
    {
        match &self.matching {
            Some(matching) => Some(matching.of_delivering(note)),
            None => None,
        }
    }

    // That of E1A, E2A and E4A to E6A: what became of what the event answers.
    fn of_answering(&self, asked: &Asked, exchange: Exchange, note: &Note) -> Evidence
        ensures { (tested : TheTested) (at : ThePlace) (fate : TheFate) (past : List Seen) → IsTrail self.now tested (Some fate) past → IsAsked (exchange_of exchange) asked.now (stretches tested.role (Some fate) past) → result ≡ found (by_asked (exchange_of exchange) tested.role) (Some fate) None (newest (seen at note.now) past) }
    {
        match exchange.answer(note) {
            Some(i) => Evidence::of(asked.end_of_asked(self.begun.connack(), i)),
            None => Evidence::nothing(),
        }
    }

    // That of E3A, where also a PUBREC that refuses may be to blame.
    fn of_confirming(&self, note: &Note) -> Evidence
        ensures { (tested : TheTested) (at : ThePlace) (fate : TheFate) (past : List Seen) → IsTrail self.now tested (Some fate) past → result ≡ found (reason tested.role E3A) (Some fate) None (newest (seen at note.now) past) }
    {
        match note.sent_pubrel() {
            Some(i) => Evidence::of(
                self.answering
                    .pubrels
                    .end_of_confirmed(self.begun.connack(), i),
            ),
            None => Evidence::nothing(),
        }
    }

    // That of L1: what became of the message that is released.
    fn of_releasing(&self, note: &Note) -> Evidence
        ensures { (tested : TheTested) (at : ThePlace) (fate : TheFate) (past : List Seen) → IsTrail self.now tested (Some fate) past → result ≡ found (reason tested.role L1) (Some fate) None (newest (seen at note.now) past) }
    {
        match note.released_identifier() {
            Some(i) => Evidence::of(self.received.end_of_received(self.begun.connack(), i)),
            None => Evidence::nothing(),
        }
    }

    // That of L2: the RELEASE before.
    fn of_releasing_again(&self, note: &Note) -> Evidence
        ensures { (tested : TheTested) (at : ThePlace) (fate : TheFate) (past : List Seen) → IsTrail self.now tested (Some fate) past → result ≡ found (reason tested.role L2) (Some fate) None (newest (seen at note.now) past) }
    {
        match note.released_identifier() {
            Some(i) => Evidence::of(self.received.release(i)),
            None => Evidence::nothing(),
        }
    }

    // That of L3: the PUBLISH that brought the message.
    fn of_completing(&self, note: &Note) -> Evidence
        ensures { (tested : TheTested) (at : ThePlace) (fate : TheFate) (past : List Seen) → IsTrail self.now tested (Some fate) past → result ≡ found (reason tested.role L3) (Some fate) None (newest (seen at note.now) past) }
    {
        match note.sent_success_pubcomp() {
            Some(i) => Evidence::of(self.received.first_brought(i)),
            None => Evidence::nothing(),
        }
    }

    // What a fault of a statement at an event conflicts with, but for B02. It takes no memory.
    fn find_at_once(&self, rule: Rule, at: Place3, note: &Note) -> Option<Evidence>
        ensures { (tested : TheTested) (fate : TheFate) (past : List Seen) → same_rule rule B02 ≡ false → at.position ≡ length past + 1 → IsTrail self.now tested (Some fate) past → result ≡ only (finds self.now rule) (Some (found (reason tested.role rule) (Some fate) None (newest (seen at note.now) past))) }
    {
        let (answering, waiting) = (&self.answering, &self.waiting);
        match rule {
            Rule::S01 => Some(self.of_taking(note)),
            Rule::S02 => Some(self.of_resending(note)),
            Rule::S03 => Some(self.of_repeating(note)),
            Rule::S04 => Some(self.of_receding(note)),
            Rule::S05 => Some(self.of_following(note)),
            Rule::B01 => self.of_unasked(),
            Rule::S07 => Some(self.counters.quota(at.position, &self.handshake)),
            Rule::E7R => Some(self.counters.pings()),
            Rule::E1A => Some(self.of_answering(&answering.pubacks, Exchange::PublishPuback, note)),
            Rule::E2A => Some(self.of_answering(&answering.pubrecs, Exchange::PublishPubrec, note)),
            Rule::E3A => Some(self.of_confirming(note)),
            Rule::E4A => Some(self.of_answering(
                &answering.pubcomps,
                Exchange::PubrelPubcomp,
                note,
            )),
            Rule::E5A => Some(self.of_answering(
                &answering.subacks,
                Exchange::SubscribeSuback,
                note,
            )),
            Rule::E6A => Some(self.of_answering(
                &answering.unsubacks,
                Exchange::UnsubscribeUnsuback,
                note,
            )),
            Rule::E1O => Some(of_overtaking(&waiting.pubacks, Exchange::PublishPuback, note)),
            Rule::E2O => Some(of_overtaking(&waiting.pubrecs, Exchange::PublishPubrec, note)),
            Rule::E3O => Some(of_overtaking(&waiting.pubrels, Exchange::PubrecPubrel, note)),
            Rule::B03 => Some(waiting.requests.of_suback(note)),
            Rule::B04 => Some(waiting.requests.of_unsuback(note)),
            Rule::B05 => Some(waiting.requests.of_granting(note)),
            Rule::B06 => Some(waiting.requests.of_untruth(note)),
            Rule::B07 => Some(waiting.requests.of_untruth(note)),
            Rule::B09 => self.of_delivering(note),
            Rule::P01 => self.of_delivering(note),
            Rule::P02 => self.of_delivering(note),
            Rule::R01 => self.of_delivering(note),
            Rule::R02 => self.of_delivering(note),
            Rule::L1 => Some(self.of_releasing(note)),
            Rule::L2 => Some(self.of_releasing_again(note)),
            Rule::L3 => Some(self.of_completing(note)),
            _ => None,
        }
    }

    /// What a fault of this statement at an event conflicts with, if it is one of those whose
    /// evidence it finds: those on sessions, B01 and B02 only if it keeps the Topic Filters that
    /// stand, B09, P01, P02, R01 and R02 only if it keeps those that were asked for. It is asked
    /// before the event is taken in.
    ///
    /// # Errors
    ///
    /// `Memory` if there is no memory to look for it.
    pub fn find(&self, rule: Rule, at: Place3, note: &Note) -> Result<Option<Evidence>, Memory>
        ensures { IfOk result (λ evidence. (tested : TheTested) (fate : TheFate) (past : List Seen) → at.position ≡ length past + 1 → IsTrail self.now tested (Some fate) past → evidence ≡ only (finds self.now rule) (Some (found (reason tested.role rule) (Some fate) None (newest (seen at note.now) past)))) }
    {
        if rule == Rule::B02 {
            let evidence = self.of_exceeding(note)?;
            return Ok(evidence);
        }
        Ok(self.find_at_once(rule, at, note))
    }

    /// Adds what the faults of an event conflict with, as far as it finds that. It is asked before
    /// the event is taken in.
    ///
    /// # Errors
    ///
    /// `Memory` if there is no memory for them, or to look for them.
    pub fn explain(
        &self,
        wanted: &Faults,
        at: Place3,
        note: &Note,
        findings: &mut Findings,
    ) -> Result<(), Memory>
        ensures { OnOk result ((tested : TheTested) (fate : TheFate) (past : List Seen) → at.position ≡ length past + 1 → IsTrail self.now tested (Some fate) past → (k : ℕ) (r : TheRule)
            → found_at findings.new k r ≡ option_or (explained_at (finds self.now) (map.entries wanted.now) at.position k r (found (reason tested.role r) (Some fate) None (newest (seen at note.now) past))) (found_at findings.old k r)) }
    {
        for (key, _) in wanted.at(at.position) {
            let found = self.find(key.rule, at, note)?;
            if let Some(evidence) = found {
                findings.add(*key, evidence)?;
            }
        }
        Ok(())
    }
}

// That of E1O to E3O: the earliest that waits under another identifier.
fn of_overtaking(unanswered: &Unanswered, exchange: Exchange, note: &Note) -> Evidence
    ensures { (role : TheRole) (at : ThePlace) (fate : Option TheFate) (past : List Seen) → IsUnanswered (exchange_of exchange) unanswered.now (stretches role fate past) → result ≡ found (by_order (exchange_of exchange)) fate None (newest (seen at note.now) past) }
{
    match exchange.answer(note) {
        Some(i) => Evidence::of(unanswered.first_other(i)),
        None => Evidence::nothing(),
    }
}
