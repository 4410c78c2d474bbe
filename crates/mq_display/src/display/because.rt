//! The words on what a fault conflicts with.
#![tactic(auto, using(crate::proofs::OutgoingLaws::putting))]

ghost use Rattle.std.specs.Prelude.{◌≡◌, ℕ, Some};
ghost use Rattle.mq_display.specs.Because.{because_words, event_words, event_words_on_one, event_words_on_two, lone_words, lone_words_on_one, lone_words_on_two, reason_words, words_after_event, words_alone, words_on};
ghost use Rattle.mq_display.specs.Phrases.{with_number, with_numbers};
ghost use Rattle.mq_display.specs.Outgoing.{Puts};

use super::outgoing::Outgoing;
use mq_rules::{Evidence, Numbers, Rule};
use std::io::Write;

/// Words with a number between them.
#[derive(Clone, Copy)]
pub struct OnOne {
    before: &'static str,
    after: &'static str,
}

/// Words with two numbers between them.
#[derive(Clone, Copy)]
pub struct OnTwo {
    before: &'static str,
    between: &'static str,
    after: &'static str,
}

/// Appends the words on what a fault of a statement conflicts with, if it has a reason: each text
/// begins with a space, and stands in parentheses. Where the statement says all there is to say,
/// there are none.
pub fn put_reason<W: Write>(out: &mut Outgoing<'_, W>, rule: Rule, reason: Option<Evidence>)
    ensures { Puts W.contents out.old (reason_words rule reason) out.new }
{
    if let Some(reason) = reason {
        put_because(out, rule, reason);
    }
}

// Appends the words on what a fault of a statement conflicts with, by whether an event is to blame.
fn put_because<W: Write>(out: &mut Outgoing<'_, W>, rule: Rule, reason: Evidence)
    ensures { Puts W.contents out.old (because_words rule reason) out.new }
{
    match reason.because {
        Some(position) => put_event(out, rule, position, reason.numbers),
        None => put_alone(out, rule, reason.numbers),
    }
}

// Appends the words on the event at this position because of which a fault is one.
fn put_event<W: Write>(out: &mut Outgoing<'_, W>, rule: Rule, position: u32, numbers: Numbers)
    ensures { Puts W.contents out.old (words_on rule (Some position) numbers) out.new }
{
    out.put(" (because of event ");
    out.put_number(u64::from(position));
    put_after_event(out, rule, numbers);
    out.put(")");
}

// Appends what that event is to a fault of a statement.
fn put_after_event<W: Write>(out: &mut Outgoing<'_, W>, rule: Rule, numbers: Numbers)
    ensures { Puts W.contents out.old (words_after_event rule numbers) out.new }
{
    match numbers {
        Numbers::Nothing => out.put(event_words(rule)),
        Numbers::One(number) => put_on_one(out, event_words_on_one(rule), number),
        Numbers::Two(first, second) => put_on_two(out, event_words_on_two(rule), first, second),
    }
}

// Appends what is said of a fault of a statement where no event is to blame.
fn put_alone<W: Write>(out: &mut Outgoing<'_, W>, rule: Rule, numbers: Numbers)
    ensures { Puts W.contents out.old (words_alone rule numbers) out.new }
{
    match numbers {
        Numbers::Nothing => out.put(lone_words(rule)),
        Numbers::One(number) => put_on_one(out, lone_words_on_one(rule), number),
        Numbers::Two(first, second) => put_on_two(out, lone_words_on_two(rule), first, second),
    }
}

// Appends words with this number between them, if there are any.
fn put_on_one<W: Write>(out: &mut Outgoing<'_, W>, words: Option<OnOne>, number: u64)
    ensures { Puts W.contents out.old (with_number words number) out.new }
{
    if let Some(words) = words {
        out.put(words.before);
        out.put_number(number);
        out.put(words.after);
    }
}

// Appends words with these numbers between them, if there are any.
fn put_on_two<W: Write>(out: &mut Outgoing<'_, W>, words: Option<OnTwo>, first: u64, second: u64)
    ensures { Puts W.contents out.old (with_numbers words first second) out.new }
{
    if let Some(words) = words {
        out.put(words.before);
        out.put_number(first);
        out.put(words.between);
        out.put_number(second);
        out.put(words.after);
    }
}

// What the event is to a fault of a statement that compares no numbers.
fn event_words(rule: Rule) -> &'static str
    ensures { result.now ≡ event_words rule }
{
    match rule {
        Rule::C03 => ": the first CONNECT",
        Rule::C06 => ": the first CONNACK",
        Rule::C07 => ": the CONNECT, with Clean Start 1",
        Rule::C08 => ": the last CONNACK that accepted, whose session has ended",
        Rule::C10 => ": the CONNECT, with an empty Client Identifier",
        Rule::C11 => ": the DISCONNECT",
        Rule::C12 => ": the CONNACK that refuses",
        Rule::C13 => ": the CONNACK, with Session Present 1",
        Rule::C21 => ": the CONNECT, with Request Problem Information 0",
        Rule::C22 => ": the CONNECT, without Request Response Information 1",
        Rule::C23 => ": it had to close after that",
        Rule::S01 => ": it holds the identifier",
        Rule::S02 | Rule::L1 => ": the exchange was over with it",
        Rule::S03 => ": the PUBLISH before, on this connection",
        Rule::S04 => ": the PUBREL",
        Rule::S06 => ": the CONNACK that resumed the session",
        Rule::E1A | Rule::E2A | Rule::E3A | Rule::E4A | Rule::E5A | Rule::E6A => {
            ": nothing asked for it after that"
        }
        Rule::E1R | Rule::E2R | Rule::E3R | Rule::E4R | Rule::E5R | Rule::E6R => {
            ": the REST, with no answer before it"
        }
        Rule::E1O | Rule::E2O | Rule::E3O => ": it came first, and waits for its answer",
        Rule::L2 => ": the RELEASE before",
        Rule::L3 => ": the PUBLISH that brought it, and wasn't released",
        Rule::B05 => ": the SUBSCRIBE, which asks for less",
        Rule::B06 => ": the UNSUBSCRIBE, for a filter that was subscribed",
        Rule::B07 => ": the UNSUBSCRIBE, for a filter that was never subscribed",
        Rule::B09 | Rule::P01 | Rule::P02 | Rule::R01 | Rule::R02 => {
            ": the SUBSCRIBE that matches"
        }
        Rule::F01 => ": the CONNACK, with Retain Available 0",
        Rule::F02 => ": the CONNACK, with Wildcard Subscription Available 0",
        Rule::F03 => ": the CONNACK, with Subscription Identifier Available 0",
        Rule::F04 => ": the CONNACK, with Shared Subscription Available 0",
        Rule::F05 => ": the CONNECT, with a Will QoS above the announced maximum",
        Rule::F06 => ": the CONNECT, with Will Retain 1",
        Rule::C24 => ": the REST, with no CONNACK before it",
        Rule::D01 | Rule::D02 | Rule::D03 | Rule::D05 =>
            ": the REST, and the connection was still open",
        Rule::A01 => ": the CONNECT, with an Authentication Method, and no CONNACK before",
        Rule::A02 => ": the CONNECT, without an Authentication Method",
        Rule::A03 => ": the CONNECT, whose Authentication Method it must have",
        _ => "",
    }
}

// The same of one that compares a number.
#[rattlefmt::skip]
fn event_words_on_one(rule: Rule) -> Option<OnOne>
    ensures { (number : ℕ) → with_number result number ≡ event_words_on_one rule number }
{
    match rule {
        Rule::C20 => Some(OnOne { before: ": the CONNECT, with Session Expiry Interval 0 or none, and here ", after: " seconds" }),
        _ => None,
    }
}

// The same of one that compares two numbers.
#[rattlefmt::skip]
fn event_words_on_two(rule: Rule) -> Option<OnTwo>
    ensures { (first second : ℕ) → with_numbers result first second ≡ event_words_on_two rule first second }
{
    match rule {
        Rule::C14 => Some(OnTwo { before: ": ", between: " bytes, at most ", after: " allowed" }),
        Rule::C15 => Some(OnTwo { before: ": Topic Alias ", between: ", at most ", after: " allowed" }),
        Rule::C17 => Some(OnTwo { before: ": QoS ", between: ", at most ", after: " allowed" }),
        Rule::S05 => Some(OnTwo { before: ": first sent as event ", between: ", and this one as event ", after: " before it" }),
        Rule::S07 => Some(OnTwo { before: ": ", between: " in flight, at most ", after: " allowed" }),
        Rule::E7R => Some(OnTwo { before: ": ", between: " asked, ", after: " answered" }),
        Rule::B02 => Some(OnTwo { before: ": QoS ", between: ", at most ", after: " granted" }),
        Rule::B03 | Rule::B04 => Some(OnTwo { before: ": ", between: " filters, ", after: " Reason Codes" }),
        Rule::K01 => Some(OnTwo { before: ": nothing came from the client for ", between: " microseconds, and the limit is ", after: "" }),
        Rule::K02 => Some(OnTwo { before: ": nothing came from the client for ", between: " microseconds, and the limit is ", after: "" }),
        _ => None,
    }
}

// What is said of a fault of a statement that compares no numbers, where no event is to blame.
fn lone_words(rule: Rule) -> &'static str
    ensures { result.now ≡ lone_words rule }
{
    match rule {
        Rule::C02 => " (no CONNECT was sent before)",
        Rule::C04 => " (no CONNECT was received before)",
        Rule::C05 => " (no CONNACK was sent before)",
        Rule::C08 => " (no session was begun)",
        Rule::S02 => " (never sent in this session)",
        Rule::E1A | Rule::E2A | Rule::E3A | Rule::E4A | Rule::E5A | Rule::E6A => {
            " (never asked for in this session)"
        }
        Rule::L1 => " (never received in this session)",
        _ => "",
    }
}

// The same of one that compares a number.
#[rattlefmt::skip]
fn lone_words_on_one(rule: Rule) -> Option<OnOne>
    ensures { (number : ℕ) → with_number result number ≡ lone_words_on_one rule number }
{
    match rule {
        Rule::C16 => Some(OnOne { before: " (Topic Alias ", after: " wasn't set on this connection)" }),
        Rule::B01 => Some(OnOne { before: " (", after: " filters stand, and none matches)" }),
        _ => None,
    }
}

// The same of one that compares two numbers.
#[rattlefmt::skip]
fn lone_words_on_two(rule: Rule) -> Option<OnTwo>
    ensures { (first second : ℕ) → with_numbers result first second ≡ lone_words_on_two rule first second }
{
    match rule {
        Rule::C15 => Some(OnTwo { before: " (Topic Alias ", between: ", at most ", after: " allowed by default)" }),
        Rule::S07 => Some(OnTwo { before: " (", between: " in flight, at most ", after: " allowed by default)" }),
        _ => None,
    }
}
