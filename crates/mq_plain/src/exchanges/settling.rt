//! Each cause is answered before the tested end is at rest.
ghost use Rattle.std.specs.Prelude.{◌≡◌, reverse, length, IfOk};
ghost use Rattle.mq_rules.specs.Moments.{note, IsPlaced};
ghost use Rattle.mq_plain.specs.Shown.{IsShown};
ghost use Rattle.mq_plain.specs.Unanswered.{is_first_in};

use crate::exchanges::Exchange;
use crate::exchanges::slot::Slot;
use crate::exchanges::unanswered::{is_first, unanswered};
use crate::resting::RestStatement;
use crate::table::Table;
use mq_log::Place3;
use mq_rules::{Memory, Role, Rule, Seen};
use std::alloc::Global;
use std::marker::PhantomData;

/// E1R to E6R: a cause has an answer on its connection before a REST that binds. The fault is at
/// the first unanswered cause under an identifier.
pub struct Settled<X: Exchange>(PhantomData<X>);

impl<X: Exchange> RestStatement for Settled<X> {
    ghost use Rattle.mq_rules.specs.Exchanges.{shows_R};

    ghost judged = { X.settled };

    ghost shows = { λ role. shows_R X.exchange };

    fn rule() -> Rule {
        X::settled_rule()
    }

    fn shown(
        alloc: Global,
        _role: Role,
        _rest: &Seen,
        before: &[Seen],
    ) -> Result<Vec<Place3>, Memory> {
        let slots = unanswered::<X>(alloc, before)?;
        first_places::<X>(alloc, &slots, before)
    }

    ghost says = { X.says_settled };
}

// The places of the events that are the first unanswered causes under their identifiers.
//
// Errors: `Memory` if there is no memory for them.
fn first_places<X: Exchange>(
    alloc: Global,
    slots: &Table<Slot>,
    before: &[Seen],
) -> Result<Vec<Place3>, Memory>
    ensures { IsPlaced (reverse before.now) → IfOk result (λ places. IsShown (λ m. is_first_in X.exchange slots.now (length m.past) (note m)) (reverse before.now) places.items) }
{
    let mut places = Vec::new(alloc);
    for (i, event) in before.iter().enumerate() {
        if is_first::<X>(slots, i, &event.note) {
            places.push(event.place)?;
        }
    }
    Ok(places)
}
