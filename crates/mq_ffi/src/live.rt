//! A judge that is told what happens while it happens.
ghost use Rattle.std.specs.Prelude.{◌≡◌, ◌≤◌, ◌*◌, ℕ, List, []};
ghost use Rattle.mq_watchers.specs.Burden.{burden};
ghost use Rattle.mq_judge.specs.Judging.{Knows, Follows, AreFaultsOf};
ghost use Rattle.mq_judge.specs.Watching.{watchers_weigh};
ghost use Rattle.mq_rules.specs.Weights.{in_word};
ghost use Rattle.mq_rules.specs.Notes.{seen_in};
ghost use Rattle.mq_choice.specs.declared.choice.Choice.TheVariants as choices;
ghost use Rattle.mq_ffi.specs.Giving.{GivesNext};
ghost use Rattle.mq_ffi.specs.declared.live.Source.TheVariants as sources;
ghost use Rattle.mq_ffi.specs.Living.{IsTold, is_end, Chooses, Feeds, Begins, Tells, Finishes, AnswersPlaces, ReadsList};

use crate::answer::Trouble;
use crate::event::Event;
use crate::fault::FaultRow;
use crate::taking::{take_event, take_in};
use crate::turn::{Turn, next_in_turn};
use crate::writing::header_of;
use mq_choice::Choice;
use mq_judge::{Faults, Judge, Options, Refusal, Rule};
use mq_log::Header;
use std::alloc::Global;
use std::str;

/// What a judge is told.
#[derive(Clone, Copy, Debug, PartialEq, Eq)]
pub enum Source {
    /// Nothing yet.
    Nothing,
    /// The bytes of a log.
    Log,
    /// Events.
    Events,
    /// Nothing more.
    Ended,
}

/// A judge, and what it was told so far.
#[derive(Drop)]
pub struct Live {
    judge: Judge,
    /// The statements whose faults are given.
    choice: Choice,
    source: Source,
    /// Why the log is refused, if it is.
    refusal: Option<Refusal>,
    /// Which faults were given, to whoever asks for one after another.
    turn: Turn,
}

impl Live {
    /// A judge that was told nothing. It reads packets of at most `limit` bytes: 5 to 268,435,460.
    /// It judges without a list.
    pub fn new(alloc: Global, limit: u32) -> Live
        ensures told { IsTold result [] }
        ensures limit { result.judge.limit ≡ limit }
        ensures source { result.source ≡ sources.Nothing }
        ensures turn { result.turn ≡ record { event = 0; given = 0 } }
        ensures choice { result.choice ≡ choices.Usual }
    {
        Live::by(alloc, limit, Choice::Usual)
    }

    // A judge that was told nothing, and judges by this choice.
    fn by(alloc: Global, limit: u32, choice: Choice) -> Live
        ensures told { IsTold result [] }
        ensures limit { result.judge.limit ≡ limit }
        ensures source { result.source ≡ sources.Nothing }
        ensures turn { result.turn ≡ record { event = 0; given = 0 } }
        ensures choice { result.choice ≡ choice }
    {
        let further = choice.further();
        Live {
            judge: Judge::counting(alloc, Options { limit, further }),
            choice,
            source: Source::Nothing,
            refusal: None,
            turn: Turn { event: 0, given: 0 },
        }
    }

    /// Chooses the statements whose faults are given, by a list, before anything is told. The judge
    /// is made anew, so that it judges the further statements too if one of them is chosen.
    pub fn choose(&mut self, alloc: Global, list: &[u8]) -> Result<(), Trouble>
        ensures { Chooses list.now self.old self.new result }
    {
        if self.refusal.is_some() {
            return Err(Trouble::Refused);
        }
        let Some(choice) = read(list) else {
            return Err(Trouble::Value);
        };
        match self.source {
            Source::Nothing => {}
            Source::Log | Source::Events | Source::Ended => return Err(Trouble::Order),
        }
        *self = Live::by(alloc, self.judge.limit(), choice);
        Ok(())
    }

    /// The statements whose faults are given.
    pub fn choice(&self) -> Choice
        ensures { result ≡ self.now.choice }
    {
        self.choice
    }

    /// The faults that are known, of chosen statements and others.
    pub fn known(&self) -> &Faults
        ensures { (taken : List ℕ) → Knows self.now.judge taken → AreFaultsOf self.now.judge.further taken result.now }
    {
        self.judge.known()
    }

    /// The fault of a chosen statement that comes after those that this has returned, if there is
    /// one: by the event that shows them, and those that one event shows in the order of reports.
    /// So each comes once, whatever is told between the calls.
    pub fn next_fault(&mut self) -> Option<FaultRow>
        ensures { GivesNext self.old self.new result }
    {
        match next_in_turn(self.judge.known(), self.choice, self.turn) {
            Some(next) => {
                self.turn = next.1;
                Some(next.0)
            }
            None => None,
        }
    }

    /// How much the judge keeps beside the faults and the bytes of unfinished packets: how many
    /// Packet Identifiers, filters, Topic Aliases and events.
    pub fn weight(&self) -> usize
        ensures exact { result ≡ in_word (watchers_weigh self.now.judge.judging.watching) }
        ensures bounded { (log : List ℕ) → Follows self.now.judge log → result ≤ 4 * burden self.now.judge.judging.watching.tested (seen_in log) }
    {
        self.judge.weight()
    }

    /// How many places a statement has in what was told: at how many events it was put to the test.
    pub fn places(&self, rule: Rule) -> Result<u32, Trouble>
        ensures { AnswersPlaces rule self.now result }
    {
        if self.refusal.is_some() {
            return Err(Trouble::Refused);
        }
        match self.judge.places(rule) {
            Some(places) => Ok(places),
            None => Err(Trouble::Absent),
        }
    }

    /// Why the log is refused, if it is.
    pub fn refusal(&self) -> Option<Refusal>
        ensures { result ≡ self.now.refusal }
    {
        self.refusal
    }

    /// Takes in the next bytes of a log.
    pub fn feed(&mut self, bytes: &[u8]) -> Result<(), Trouble>
        ensures { Feeds bytes.now self.old self.new result }
    {
        if self.refusal.is_some() {
            return Err(Trouble::Refused);
        }
        match self.source {
            Source::Nothing | Source::Log => {
                if bytes.is_empty() {
                    return Ok(());
                }
                self.source = Source::Log;
                take_in(&mut self.judge, &mut self.refusal, bytes)
            }
            Source::Events | Source::Ended => Err(Trouble::Order),
        }
    }

    /// Says which end is judged, before its events are told: they are records of version 1.
    pub fn begin(&mut self, header: Header) -> Result<(), Trouble>
        requires { header.version ≡ 1 }
        ensures { Begins header self.old self.new result }
    {
        if self.refusal.is_some() {
            return Err(Trouble::Refused);
        }
        match self.source {
            Source::Nothing => {}
            Source::Log | Source::Events | Source::Ended => return Err(Trouble::Order),
        }
        self.source = Source::Events;
        take_in(&mut self.judge, &mut self.refusal, &header_of(header))
    }

    /// Takes in an event.
    pub fn tell(&mut self, event: Event<'_>) -> Result<(), Trouble>
        ensures { Tells event.entry self.old self.new result }
    {
        if self.refusal.is_some() {
            return Err(Trouble::Refused);
        }
        match self.source {
            Source::Events => {}
            Source::Nothing | Source::Log | Source::Ended => return Err(Trouble::Order),
        }
        take_event(&mut self.judge, &mut self.refusal, event)
    }

    /// Ends the log. The faults stay.
    pub fn finish(&mut self) -> Result<u32, Trouble>
        ensures { Finishes self.old self.new result }
    {
        if self.refusal.is_some() {
            return Err(Trouble::Refused);
        }
        if has_ended(self.source) {
            return Err(Trouble::Order);
        }
        self.source = Source::Ended;
        match self.judge.end() {
            Ok(events) => Ok(events),
            Err(refusal) => {
                self.refusal = Some(refusal);
                Err(Trouble::Refused)
            }
        }
    }
}

// The statements that these bytes choose as a list, if they do.
fn read(list: &[u8]) -> Option<Choice>
    ensures { ReadsList list.now result }
{
    match str::from_utf8(list) {
        Ok(list) => Choice::read(list).ok(),
        Err(_) => None,
    }
}

// Whether the log has ended.
fn has_ended(source: Source) -> bool
    ensures { result ≡ is_end source }
{
    match source {
        Source::Ended => true,
        Source::Nothing | Source::Log | Source::Events => false,
    }
}
