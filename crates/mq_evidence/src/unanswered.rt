//! The causes of an exchange that wait for their answers, in their order (MQTT 5.0, section 4.6):
//! the evidence of E1O to E3O.
ghost use Rattle.std.specs.Prelude.{◌≡◌, ℕ, [], None, Some, OnOk, cond, option_map};
ghost use Rattle.std.specs.Option.{option_and_then, option_or};
ghost use Rattle.mq_rules.specs.ByIdentifier.{kept};
ghost use Rattle.mq_rules.specs.Words.{is_id};
ghost use Rattle.mq_rules.specs.Exchanges as exchanges;
ghost use Rattle.mq_rules.specs.Moments.{Moment, position, IsDescending};
ghost use Rattle.mq_evidence.specs.Stretches.{Stretches, Comes, advanced, nothing_yet};
ghost use Rattle.mq_evidence.specs.Exchange.{exchange_of};
ghost use Rattle.mq_evidence.specs.Unanswered.{IsUnanswered, first_but, other_of, left_of, joined};

use crate::exchange::Exchange;
use crate::turn::Turn;
use mq_rules::{ByIdentifier, Memory, Note};
use std::alloc::Global;
use std::collections::BTreeMap;

/// The first cause on the connection that waits for its answer, of each Packet Identifier.
#[derive(Drop)]
pub struct Unanswered {
    alloc: Global,
    exchange: Exchange,
    /// Its position, by Packet Identifiers.
    firsts: ByIdentifier<u32>,
    /// The same in their order: the Packet Identifiers by the positions.
    order: BTreeMap<u32, u16>,
}

// Where a connection begins, nothing waits on it.
fn begin(firsts: &mut ByIdentifier<u32>, order: &mut BTreeMap<u32, u16>, alloc: Global, opens: bool)
    ensures firsts { (i : ℕ) → kept firsts.new i ≡ cond opens None (kept firsts.old i) }
    ensures order { order.new.entries ≡ cond opens [] order.old.entries }
{
    if opens {
        *firsts = ByIdentifier::new(alloc);
        *order = BTreeMap::new(alloc);
    }
}

// Takes out what waits under the identifier of an answer.
fn settle(firsts: &mut ByIdentifier<u32>, order: &mut BTreeMap<u32, u16>, answer: Option<u16>)
    ensures firsts { (i : ℕ) → kept firsts.new i ≡ cond (is_id i answer) None (kept firsts.old i) }
    ensures order { order.new.entries ≡ left_of (option_and_then (kept firsts.old) answer) order.old.entries }
{
    let Some(i) = answer else {
        return;
    };
    let Some(first) = firsts.remove(i) else {
        return;
    };
    order.remove(&first);
}

// Adds a cause, if nothing waits under its identifier.
fn wait(
    firsts: &mut ByIdentifier<u32>,
    order: &mut BTreeMap<u32, u16>,
    cause: Option<u16>,
    position: u32,
) -> Result<(), Memory>
    ensures firsts { OnOk result ((i : ℕ) → kept firsts.new i ≡ option_or (kept firsts.old i) (cond (is_id i cause) (Some position) None)) }
    ensures order { OnOk result (order.new.entries ≡ joined (kept firsts.old) cause position order.old.entries) }
{
    let Some(i) = cause else {
        return Ok(());
    };
    if firsts.contains(i) {
        return Ok(());
    }
    firsts.insert(i, position)?;
    order.insert(position, i)?;
    Ok(())
}

// The first position, or the second one if the identifier of the first is this one.
fn other_position(order: &BTreeMap<u32, u16>, i: u16) -> Option<u32>
    ensures { result ≡ other_of i order.now.entries }
{
    let mut entries = order.iter();
    let (first, identifier) = entries.next()?;
    if *identifier != i {
        return Some(*first);
    }
    let (second, _) = entries.next()?;
    Some(*second)
}

impl Unanswered {
    /// Nothing was asked for in this exchange.
    pub fn new(alloc: Global, exchange: Exchange) -> Self
        ensures { IsUnanswered (exchange_of exchange) result nothing_yet }
    {
        Unanswered {
            alloc,
            exchange,
            firsts: ByIdentifier::new(alloc),
            order: BTreeMap::new(alloc),
        }
    }

    /// Takes in the next event.
    ///
    /// # Errors
    ///
    /// `Memory` if there is no memory for what it keeps. Its state is then of no use.
    pub fn take(&mut self, turn: Turn, note: &Note) -> Result<(), Memory>
        ensures { OnOk result ((x : exchanges.Exchange) (m : Moment) (s : Stretches) → Comes turn note.now m → IsUnanswered x self.old s → IsUnanswered x self.new (advanced turn m s)) }
    {
        let alloc = self.alloc;
        let cause = self.exchange.cause(note);
        let answer = self.exchange.answer(note);
        begin(&mut self.firsts, &mut self.order, alloc, turn.opens);
        settle(&mut self.firsts, &mut self.order, answer);
        wait(&mut self.firsts, &mut self.order, cause, turn.position)?;
        Ok(())
    }

    /// The earliest cause on the connection that waits for its answer, under another identifier
    /// than this one.
    pub fn first_other(&self, i: u16) -> Option<u32>
        ensures { (x : exchanges.Exchange) (s : Stretches) → IsDescending s.connection → IsUnanswered x self.now s → result ≡ option_map position (first_but x i s.connection) }
    {
        other_position(&self.order, i)
    }
}
