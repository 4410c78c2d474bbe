//! What C calls. Each function takes the judge out of the handle, asks it, and puts it back.
ghost use Rattle.std.specs.Prelude.{◌≡◌, ℕ, Some, option_map};
ghost use Rattle.std.specs.FinMap as map;
ghost use Rattle.mq_log.specs.Refusing.{number_of, name_of, refusal_offset};
ghost use Rattle.mq_rules.specs.FaultKeys.{faults_at};
ghost use Rattle.mq_rules.specs.Rules.{code_of as code_text};
ghost use Rattle.mq_rules.specs.Naming.{citation_of, sentence_of};
ghost use Rattle.mq_ffi.specs.declared.event.Event.TheVariants as happened;
ghost use Rattle.mq_ffi.specs.Asking.{AsksFault, CountsFaults, Weighs, first_fault_from, nth, statement_at as statement_of, role_at as role_of};
ghost use Rattle.mq_ffi.specs.Calling.{Asked, AskedInto, Makes, Frees, FeedsAs, BeginsAs, TellsAs, AsksPlaces, AsksRefusal, AsksName, ChoosesAs, FinishesAs};
ghost use Rattle.mq_ffi.specs.Giving.{AsksNext};
ghost use Rattle.mq_ffi.specs.Holding.{held};
ghost use Rattle.mq_ffi.specs.Texts.{PutsTextIfSome, PutsCitation};

use crate::about::{put_citation, put_text_if_some};
use crate::asking::Which;
use crate::calls::{
    asked_fault, begin, choose, fault_count, feed, finish, free, make, next_fault, place_count,
    refusal, refusal_name, tell, weight_of,
};
use crate::event::Event;
use crate::fault::{FaultRow, statement_at};
use crate::handle::Handle;
use std::alloc::Global;

/// Makes a judge. A limit of 0 stands for 16,777,216.
#[unsafe(no_mangle)]
pub extern "C" fn mqjudge_new(alloc: Global, judge: &mut Handle, limit: u32) -> u32
    ensures { Makes limit (held judge.old) (held judge.new) result }
{
    make(alloc, judge, limit)
}

/// Frees the judge. The handle is then empty.
#[unsafe(no_mangle)]
pub extern "C" fn mqjudge_free(alloc: Global, judge: &mut Handle) -> u32
    ensures { Frees (held judge.old) (held judge.new) result }
{
    free(alloc, judge)
}

/// Chooses the statements whose faults are given, by a list, before anything is told.
#[unsafe(no_mangle)]
pub extern "C" fn mqjudge_choose(alloc: Global, judge: &mut Handle, list: &[u8]) -> u32
    ensures { Asked (ChoosesAs list.now) (held judge.old) (held judge.new) result }
{
    choose(alloc, judge, list)
}

/// Takes in the next bytes of a log.
#[unsafe(no_mangle)]
pub extern "C" fn mqjudge_feed(alloc: Global, judge: &mut Handle, bytes: &[u8]) -> u32
    ensures { Asked (FeedsAs bytes.now) (held judge.old) (held judge.new) result }
{
    feed(alloc, judge, bytes)
}

/// Says which end is judged, before its events are told: 0 for a client, 1 for a server; and
/// whether releases are told: 0 or 1.
#[unsafe(no_mangle)]
pub extern "C" fn mqjudge_begin(
    alloc: Global,
    judge: &mut Handle,
    server: u32,
    releases: u32,
) -> u32
    ensures { Asked (BeginsAs server releases) (held judge.old) (held judge.new) result }
{
    begin(alloc, judge, server, releases)
}

/// Tells the judge that a network connection begins.
#[unsafe(no_mangle)]
pub extern "C" fn mqjudge_open(alloc: Global, judge: &mut Handle) -> u32
    ensures { Asked (TellsAs happened.Open) (held judge.old) (held judge.new) result }
{
    tell(alloc, judge, Event::Open)
}

/// Tells the judge what the end sent.
#[unsafe(no_mangle)]
pub extern "C" fn mqjudge_sent(alloc: Global, judge: &mut Handle, bytes: &[u8]) -> u32
    ensures { Asked (TellsAs (happened.Sent bytes.entry)) (held judge.old) (held judge.new) result }
{
    tell(alloc, judge, Event::Sent(bytes))
}

/// Tells the judge what the end received.
#[unsafe(no_mangle)]
pub extern "C" fn mqjudge_received(alloc: Global, judge: &mut Handle, bytes: &[u8]) -> u32
    ensures { Asked (TellsAs (happened.Received bytes.entry)) (held judge.old) (held judge.new) result }
{
    tell(alloc, judge, Event::Received(bytes))
}

/// Tells the judge that the network connection ended.
#[unsafe(no_mangle)]
pub extern "C" fn mqjudge_close(alloc: Global, judge: &mut Handle) -> u32
    ensures { Asked (TellsAs happened.Close) (held judge.old) (held judge.new) result }
{
    tell(alloc, judge, Event::Close)
}

/// Tells the judge that the end is at rest.
#[unsafe(no_mangle)]
pub extern "C" fn mqjudge_rest(alloc: Global, judge: &mut Handle) -> u32
    ensures { Asked (TellsAs happened.Rest) (held judge.old) (held judge.new) result }
{
    tell(alloc, judge, Event::Rest)
}

/// Tells the judge that the end released the QoS 2 message that it received under this Packet
/// Identifier.
#[unsafe(no_mangle)]
pub extern "C" fn mqjudge_release(alloc: Global, judge: &mut Handle, identifier: u16) -> u32
    ensures { Asked (TellsAs (happened.Release identifier)) (held judge.old) (held judge.new) result }
{
    tell(alloc, judge, Event::Release(identifier))
}

/// How many faults of chosen statements are known.
#[unsafe(no_mangle)]
pub extern "C" fn mqjudge_faults(alloc: Global, judge: &mut Handle, faults: &mut usize) -> u32
    ensures { AskedInto (faults.new ≡ faults.old) (CountsFaults faults.new) (held judge.old) (held judge.new) result }
{
    fault_count(alloc, judge, faults)
}

/// The fault at an index, in the order of reports.
#[unsafe(no_mangle)]
pub extern "C" fn mqjudge_fault(
    alloc: Global,
    judge: &mut Handle,
    index: usize,
    fault: &mut FaultRow,
) -> u32
    ensures { AskedInto (fault.new ≡ fault.old) (AsksFault (λ faults. nth faults index) fault.old fault.new) (held judge.old) (held judge.new) result }
{
    asked_fault(alloc, judge, Which::At(index), fault)
}

/// The fault at an index among those at a position.
#[unsafe(no_mangle)]
pub extern "C" fn mqjudge_fault_at(
    alloc: Global,
    judge: &mut Handle,
    position: u32,
    index: usize,
    fault: &mut FaultRow,
) -> u32
    ensures { AskedInto (fault.new ≡ fault.old) (AsksFault (λ faults. nth (faults_at position faults) index) fault.old fault.new) (held judge.old) (held judge.new) result }
{
    asked_fault(alloc, judge, Which::Beside(position, index), fault)
}

/// The first fault at a position or after it, in the order of reports.
#[unsafe(no_mangle)]
pub extern "C" fn mqjudge_fault_from(
    alloc: Global,
    judge: &mut Handle,
    position: u32,
    fault: &mut FaultRow,
) -> u32
    ensures { AskedInto (fault.new ≡ fault.old) (AsksFault (first_fault_from position) fault.old fault.new) (held judge.old) (held judge.new) result }
{
    asked_fault(alloc, judge, Which::From(position), fault)
}

/// The fault that comes after those that this call has given: by the event that shows them, and
/// those that one event shows in the order of reports. So each is given once.
#[unsafe(no_mangle)]
pub extern "C" fn mqjudge_next_fault(alloc: Global, judge: &mut Handle, fault: &mut FaultRow) -> u32
    ensures { AskedInto (fault.new ≡ fault.old) (AsksNext fault.old fault.new) (held judge.old) (held judge.new) result }
{
    next_fault(alloc, judge, fault)
}

/// How much the judge keeps of the log.
#[unsafe(no_mangle)]
pub extern "C" fn mqjudge_weight(alloc: Global, judge: &mut Handle, weight: &mut usize) -> u32
    ensures { AskedInto (weight.new ≡ weight.old) (Weighs weight.new) (held judge.old) (held judge.new) result }
{
    weight_of(alloc, judge, weight)
}

/// How many places a statement has: at how many events it was put to the test.
#[unsafe(no_mangle)]
pub extern "C" fn mqjudge_places(
    alloc: Global,
    judge: &mut Handle,
    statement: u32,
    places: &mut u32,
) -> u32
    ensures { AskedInto (places.new ≡ places.old) (AsksPlaces statement places.old places.new) (held judge.old) (held judge.new) result }
{
    place_count(alloc, judge, statement, places)
}

/// Why the log is refused: the number of the refusal, and the offset in the log of the refused
/// byte.
#[unsafe(no_mangle)]
pub extern "C" fn mqjudge_refusal(
    alloc: Global,
    judge: &mut Handle,
    number: &mut u32,
    byte: &mut u64,
) -> u32
    ensures { AskedInto ((number.new ≡ number.old) × (byte.new ≡ byte.old)) (AsksRefusal number.old number.new byte.old byte.new) (held judge.old) (held judge.new) result }
{
    refusal(alloc, judge, number, byte)
}

/// The name of the refusal.
#[unsafe(no_mangle)]
pub extern "C" fn mqjudge_refusal_name(
    alloc: Global,
    judge: &mut Handle,
    buffer: &mut [u8],
    length: &mut usize,
) -> u32
    ensures { AskedInto ((buffer.new ≡ buffer.old) × (length.new ≡ length.old)) (AsksName buffer.old buffer.new length.old length.new) (held judge.old) (held judge.new) result }
{
    refusal_name(alloc, judge, buffer, length)
}

/// Ends the log. How many events it has.
#[unsafe(no_mangle)]
pub extern "C" fn mqjudge_finish(alloc: Global, judge: &mut Handle, events: &mut u32) -> u32
    ensures { AskedInto (events.new ≡ events.old) (FinishesAs events.old events.new) (held judge.old) (held judge.new) result }
{
    finish(alloc, judge, events)
}

/// The code of a statement.
#[unsafe(no_mangle)]
pub extern "C" fn mqjudge_code(statement: u32, buffer: &mut [u8], length: &mut usize) -> u32
    ensures { PutsTextIfSome (option_map code_text (statement_of statement)) buffer.old buffer.new length.old length.new result }
{
    put_text_if_some(
        statement_at(statement).map(|rule| rule.code()),
        buffer,
        length,
    )
}

/// What a statement says, in one sentence.
#[unsafe(no_mangle)]
pub extern "C" fn mqjudge_sentence(statement: u32, buffer: &mut [u8], length: &mut usize) -> u32
    ensures { PutsTextIfSome (option_map sentence_of (statement_of statement)) buffer.old buffer.new length.old length.new result }
{
    put_text_if_some(
        statement_at(statement).map(|rule| rule.sentence()),
        buffer,
        length,
    )
}

/// The citation of a statement for an end: 0 for a client, 1 for a server.
#[unsafe(no_mangle)]
pub extern "C" fn mqjudge_citation(
    statement: u32,
    server: u32,
    buffer: &mut [u8],
    length: &mut usize,
) -> u32
    ensures { PutsCitation (statement_of statement) (role_of server) buffer.old buffer.new length.old length.new result }
{
    put_citation(statement, server, buffer, length)
}
