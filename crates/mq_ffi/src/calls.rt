//! What the exported functions do: each takes the judge out of the handle, asks it, and puts it
//! back.
ghost use Rattle.std.specs.Prelude.{◌≡◌, ℕ, None};
ghost use Rattle.mq_ffi.specs.Asking.{AsksFault, CountsFaults, ShowsFound, Weighs, fault_asked, chosen_at as chosen_of};
ghost use Rattle.mq_ffi.specs.Calling.{Asked, AskedInto, Makes, MakesWith, limit_by as limit_for, Frees, FeedsAs, BeginsAs, TellsAs, AsksRefusal, AsksName, FinishesAs, BeginsWith, AsksPlaces, ChoosesAs, PlacesBy};
ghost use Rattle.mq_ffi.specs.Giving.{AsksNext};
ghost use Rattle.mq_ffi.specs.Holding.{held};

use crate::about::put_text;
use crate::answer::{Trouble, code_of};
use crate::asking::{Which, asked_of, count_left};
use crate::event::Event;
use crate::fault::{FaultRow, chosen_at};
use crate::handle::Handle;
use crate::live::Live;
use mq_log::Header;
use std::alloc::Global;

/// The largest packet that is read if the caller names no limit, in bytes.
const DEFAULT_LIMIT: u32 = 16_777_216;

/// The least limit, and the greatest: that of the largest packet of the standard.
const LEAST_LIMIT: u32 = 5;

const GREATEST_LIMIT: u32 = 268_435_460;

/// Makes a judge in an empty handle.
pub fn make(alloc: Global, judge: &mut Handle, limit: u32) -> u32
    ensures { Makes limit (held judge.old) (held judge.new) result }
{
    if judge.is_held() {
        return code_of(Err(Trouble::Held));
    }
    match limit_by(limit) {
        Some(limit) => fill(alloc, judge, limit),
        None => code_of(Err(Trouble::Value)),
    }
}

// The limit that a number stands for, if it stands for one.
fn limit_by(limit: u32) -> Option<u32>
    ensures { result ≡ limit_for limit }
{
    if limit == 0 {
        return Some(DEFAULT_LIMIT);
    }
    if limit < LEAST_LIMIT {
        return None;
    }
    if GREATEST_LIMIT < limit {
        return None;
    }
    Some(limit)
}

// Makes a judge with this limit in an empty handle.
fn fill(alloc: Global, judge: &mut Handle, limit: u32) -> u32
    requires { held judge.old ≡ None }
    ensures { MakesWith limit (held judge.new) result }
{
    match Box::new(alloc, Live::new(alloc, limit)) {
        Ok(live) => {
            judge.put(live);
            code_of(Ok(()))
        }
        Err(_) => code_of(Err(Trouble::Memory)),
    }
}

/// Frees the judge of a handle.
pub fn free(alloc: Global, judge: &mut Handle) -> u32
    ensures { Frees (held judge.old) (held judge.new) result }
{
    match judge.take(alloc) {
        Some(_) => code_of(Ok(())),
        None => code_of(Err(Trouble::NoJudge)),
    }
}

/// Chooses the statements whose faults the judge of a handle gives.
pub fn choose(alloc: Global, judge: &mut Handle, list: &[u8]) -> u32
    ensures { Asked (ChoosesAs list.now) (held judge.old) (held judge.new) result }
{
    let Some(mut live) = judge.take(alloc) else {
        return code_of(Err(Trouble::NoJudge));
    };
    let answer = live.choose(alloc, list);
    judge.put(live);
    code_of(answer)
}

/// Feeds the judge of a handle.
pub fn feed(alloc: Global, judge: &mut Handle, bytes: &[u8]) -> u32
    ensures { Asked (FeedsAs bytes.now) (held judge.old) (held judge.new) result }
{
    let Some(mut live) = judge.take(alloc) else {
        return code_of(Err(Trouble::NoJudge));
    };
    let answer = live.feed(bytes);
    judge.put(live);
    code_of(answer)
}

/// Says which end is judged, by two numbers that are 0 or 1.
pub fn begin(alloc: Global, judge: &mut Handle, server: u32, releases: u32) -> u32
    ensures { Asked (BeginsAs server releases) (held judge.old) (held judge.new) result }
{
    let Some(mut live) = judge.take(alloc) else {
        return code_of(Err(Trouble::NoJudge));
    };
    let answer = begin_with(&mut live, server, releases);
    judge.put(live);
    code_of(answer)
}

/// Tells the judge of a handle of an event.
pub fn tell(alloc: Global, judge: &mut Handle, event: Event<'_>) -> u32
    ensures { Asked (TellsAs event.entry) (held judge.old) (held judge.new) result }
{
    let Some(mut live) = judge.take(alloc) else {
        return code_of(Err(Trouble::NoJudge));
    };
    let answer = live.tell(event);
    judge.put(live);
    code_of(answer)
}

/// How many faults of chosen statements are known.
pub fn fault_count(alloc: Global, judge: &mut Handle, faults: &mut usize) -> u32
    ensures { AskedInto (faults.new ≡ faults.old) (CountsFaults faults.new) (held judge.old) (held judge.new) result }
{
    let Some(live) = judge.take(alloc) else {
        return code_of(Err(Trouble::NoJudge));
    };
    *faults = count_left(live.known(), live.choice());
    judge.put(live);
    code_of(Ok(()))
}

/// The fault that is asked for.
pub fn asked_fault(alloc: Global, judge: &mut Handle, which: Which, fault: &mut FaultRow) -> u32
    ensures { AskedInto (fault.new ≡ fault.old) (AsksFault (fault_asked which) fault.old fault.new) (held judge.old) (held judge.new) result }
{
    let Some(live) = judge.take(alloc) else {
        return code_of(Err(Trouble::NoJudge));
    };
    let answer = write_found(asked_of(live.known(), live.choice(), which), fault);
    judge.put(live);
    answer
}

/// The fault that comes after those that were asked for so.
pub fn next_fault(alloc: Global, judge: &mut Handle, fault: &mut FaultRow) -> u32
    ensures { AskedInto (fault.new ≡ fault.old) (AsksNext fault.old fault.new) (held judge.old) (held judge.new) result }
{
    let Some(mut live) = judge.take(alloc) else {
        return code_of(Err(Trouble::NoJudge));
    };
    let answer = write_found(live.next_fault(), fault);
    judge.put(live);
    answer
}

/// How much the judge keeps.
pub fn weight_of(alloc: Global, judge: &mut Handle, weight: &mut usize) -> u32
    ensures { AskedInto (weight.new ≡ weight.old) (Weighs weight.new) (held judge.old) (held judge.new) result }
{
    let Some(live) = judge.take(alloc) else {
        return code_of(Err(Trouble::NoJudge));
    };
    *weight = live.weight();
    judge.put(live);
    code_of(Ok(()))
}

/// How many places the statement with this number has, if it is chosen.
pub fn place_count(alloc: Global, judge: &mut Handle, statement: u32, places: &mut u32) -> u32
    ensures { AskedInto (places.new ≡ places.old) (AsksPlaces statement places.old places.new) (held judge.old) (held judge.new) result }
{
    let Some(live) = judge.take(alloc) else {
        return code_of(Err(Trouble::NoJudge));
    };
    let answer = places_of(&live, statement);
    judge.put(live);
    match answer {
        Ok(count) => {
            *places = count;
            code_of(Ok(()))
        }
        Err(trouble) => code_of(Err(trouble)),
    }
}

// How many places the statement with this number has, if it is chosen.
fn places_of(live: &Live, statement: u32) -> Result<u32, Trouble>
    ensures { PlacesBy (chosen_of live.now.choice statement) live.now result }
{
    match chosen_at(live.choice(), statement) {
        Some(rule) => live.places(rule),
        None => Err(Trouble::Absent),
    }
}

/// Why the log is refused.
pub fn refusal(alloc: Global, judge: &mut Handle, number: &mut u32, byte: &mut u64) -> u32
    ensures { AskedInto ((number.new ≡ number.old) × (byte.new ≡ byte.old)) (AsksRefusal number.old number.new byte.old byte.new) (held judge.old) (held judge.new) result }
{
    let Some(live) = judge.take(alloc) else {
        return code_of(Err(Trouble::NoJudge));
    };
    let refusal = live.refusal();
    judge.put(live);
    match refusal {
        Some(refusal) => {
            *number = u32::from(refusal.number());
            *byte = refusal.byte();
            code_of(Ok(()))
        }
        None => code_of(Err(Trouble::Absent)),
    }
}

/// The refusal's name.
pub fn refusal_name(alloc: Global, judge: &mut Handle, buffer: &mut [u8], length: &mut usize) -> u32
    ensures { AskedInto ((buffer.new ≡ buffer.old) × (length.new ≡ length.old)) (AsksName buffer.old buffer.new length.old length.new) (held judge.old) (held judge.new) result }
{
    let Some(live) = judge.take(alloc) else {
        return code_of(Err(Trouble::NoJudge));
    };
    let refusal = live.refusal();
    judge.put(live);
    match refusal {
        Some(refusal) => code_of(put_text(refusal.name(), buffer, length)),
        None => code_of(Err(Trouble::Absent)),
    }
}

/// Ends the log.
pub fn finish(alloc: Global, judge: &mut Handle, events: &mut u32) -> u32
    ensures { AskedInto (events.new ≡ events.old) (FinishesAs events.old events.new) (held judge.old) (held judge.new) result }
{
    let Some(mut live) = judge.take(alloc) else {
        return code_of(Err(Trouble::NoJudge));
    };
    let answer = live.finish();
    judge.put(live);
    match answer {
        Ok(count) => {
            *events = count;
            code_of(Ok(()))
        }
        Err(trouble) => code_of(Err(trouble)),
    }
}

// Says which end is judged, by two numbers that are 0 or 1.
fn begin_with(live: &mut Live, server: u32, releases: u32) -> Result<(), Trouble>
    ensures { BeginsWith server releases live.old live.new result }
{
    if live.refusal().is_some() {
        return Err(Trouble::Refused);
    }
    if server > 1 {
        return Err(Trouble::Value);
    }
    if releases > 1 {
        return Err(Trouble::Value);
    }
    let header = Header {
        version: 1,
        server: server == 1,
        releases: releases == 1,
    };
    live.begin(header)
}

// Writes a fault for the caller, if there is one.
fn write_found(found: Option<FaultRow>, fault: &mut FaultRow) -> u32
    ensures { ShowsFound found fault.old fault.new result }
{
    match found {
        Some(row) => {
            *fault = row;
            code_of(Ok(()))
        }
        None => code_of(Err(Trouble::Absent)),
    }
}
