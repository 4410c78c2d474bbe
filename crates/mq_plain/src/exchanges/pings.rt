//! Each PINGREQ is answered before the tested end is at rest (MQTT 5.0, section 3.12.4).
ghost use Rattle.std.specs.Prelude.{◌≡◌, ◌&&◌, nat_lt, cond, reverse};
ghost use Rattle.mq_rules.specs.Moments.{newest, note, count};
ghost use Rattle.mq_rules.specs.Connections.{connection, is_binding};
ghost use Rattle.mq_rules.specs.Notes.{is_sent_pingresp, is_received_pingreq};
ghost use Rattle.mq_rules.specs.Exchanges.{breaks_E7R};

use crate::binding::is_binding_rest;
use crate::judging::SessionStatement;
use crate::lookback::NoteTest;
use mq_rules::{Fate, Memory, Note, Role, Rule, Seen};
use std::alloc::Global;

/// The PINGREQs that are received.
#[derive(Drop)]
struct ReceivesPingreq;

impl NoteTest for ReceivesPingreq {
    ghost use Rattle.mq_rules.specs.Notes.{is_received_pingreq};

    ghost test = { λ t. is_received_pingreq };

    fn passes(&self, note: &Note) -> bool {
        note.is_received_pingreq()
    }
}

/// The PINGRESPs that are sent.
#[derive(Drop)]
struct SendsPingresp;

impl NoteTest for SendsPingresp {
    ghost use Rattle.mq_rules.specs.Notes.{is_sent_pingresp};

    ghost test = { λ t. is_sent_pingresp };

    fn passes(&self, note: &Note) -> bool {
        note.is_sent_pingresp()
    }
}

/// E7R: before a REST that binds, as many PINGRESPs were sent on its connection as PINGREQs were
/// received.
pub struct AnsweredPings;

impl SessionStatement for AnsweredPings {
    ghost use Rattle.std.specs.Prelude.{refl};
    ghost use Rattle.mq_rules.specs.declared.rule.Rule.TheVariants.{E7R};
    ghost use Rattle.mq_rules.specs.Exchanges.{breaks_E7R};

    ghost judged = { E7R };

    ghost breaks = { λ role f. breaks_E7R role };

    fn rule() -> Rule {
        Rule::E7R
    }

    fn is_broken(
        _alloc: Global,
        role: Role,
        _fate: Fate,
        event: &Seen,
        before: &[Seen],
    ) -> Result<bool, Memory> {
        Ok(lacks_pingresp(role, event, before))
    }

    ghost says = { λ role. refl };
}

// Whether an event is a REST that binds, and fewer PINGRESPs were sent before it on its connection
// than PINGREQs received.
#[tactic(auto, unfolding(mq_rules::specs::Exchanges::breaks_E7R))]
fn lacks_pingresp(role: Role, event: &Seen, before: &[Seen]) -> bool
    ensures { result ≡ breaks_E7R role (newest event.now (reverse before.now)) }
{
    is_binding_rest(role, event, before)
        && count_on_connection(&SendsPingresp, before)
            < count_on_connection(&ReceivesPingreq, before)
}

// How many events of the latest connection pass a test.
fn count_on_connection<T: NoteTest>(test: &T, before: &[Seen]) -> usize
    ensures { result ≡ count (λ m. T.test test.now (note m)) (connection (reverse before.now)) }
{
    let mut counted = 0;
    let mut earlier = before;
    while let Some((event, rest)) = earlier.split_last() {
        counted += usize::from(test.passes(&event.note));
        if event.note.is_open() {
            return counted;
        }
        earlier = rest;
    }
    counted
}
