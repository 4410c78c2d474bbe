//! The send quota (MQTT 5.0, section 4.9).
ghost use Rattle.std.specs.Prelude.{◌≡◌, ◌&&◌, ◌==◌, ◌<◌, ◌-◌, ◌^◌, is_some, reverse};
ghost use Rattle.mq_rules.specs.declared.note.Seen.{Seen as TheSeen};
ghost use Rattle.mq_rules.specs.Notes.{delivery_of};
ghost use Rattle.mq_rules.specs.Moments.{newest};
ghost use Rattle.mq_rules.specs.Identifiers.{breaks_S07, counts as is_counted, is_used_up as uses_up, passes as overdraws};
ghost use Rattle.mq_plain.specs.Quota.{counted, room_back};

use crate::handshake::handshake_of;
use crate::judging::SessionStatement;
use mq_rules::{Fate, Memory, Note, Role, Rule, Seen};
use std::alloc::Global;

// Whether an event with these events before it counts for the send quota of its connection.
fn counts(role: Role, before: &[Seen]) -> bool
    ensures { (event : TheSeen) → result ≡ is_counted role (newest event (reverse before.now)) }
{
    handshake_of(role, before).counts(role)
}

// Whether a PUBLISH of QoS above 0 is sent, and no room is left for it.
fn finds_no_room(room: usize, note: &Note) -> bool
    ensures { result ≡ (is_some (delivery_of note.now) && (room == 0)) }
{
    note.delivery().is_some() && room == 0
}

// The room for PUBLISHes that an event leaves to the events before it.
fn room_before(room: usize, note: &Note) -> usize
    requires { room < 2 ^ 64 - 1 }
    ensures { result ≡ room_back note.now room }
{
    if note.delivery().is_some() {
        return room.saturating_sub(1);
    }
    if note.closer().is_some() {
        return room + 1;
    }
    room
}

// Whether some of the newest of these events, on the latest connection, have more PUBLISHes than
// closers, by more than this room.
fn is_overdrawn(role: Role, room: usize, before: &[Seen]) -> bool
    requires { room < 65536 }
    ensures { result ≡ overdraws room (counted role (reverse before.now)) }
{
    let mut earlier = before;
    let mut room = room;
    while let Some((event, rest)) = earlier.split_last() {
        if finds_no_room(room, &event.note) {
            return counts(role, rest);
        }
        if event.note.is_open() {
            return false;
        }
        room = room_before(room, &event.note);
        earlier = rest;
    }
    false
}

/// Whether the send quota of the latest connection is used up after these events: as many PUBLISHes
/// as the peer's Receive Maximum are unacknowledged. Acknowledgements that came before those
/// PUBLISHes don't raise the quota.
pub fn is_used_up(role: Role, before: &[Seen]) -> bool
    ensures { (event : TheSeen) → result ≡ uses_up role (newest event (reverse before.now)) }
{
    let most = handshake_of(role, before).receive_maximum(role);
    if most == 0 {
        return true;
    }
    is_overdrawn(role, usize::from(most - 1), before)
}

// Whether the event is a PUBLISH that exceeds the send quota.
fn passes_quota(role: Role, event: &Seen, before: &[Seen]) -> bool
    ensures { result ≡ breaks_S07 role (newest event.now (reverse before.now)) }
{
    if event.note.delivery().is_none() {
        return false;
    }
    if !counts(role, before) {
        return false;
    }
    is_used_up(role, before)
}

/// S07: no more PUBLISHes of QoS above 0 are unacknowledged than the peer's Receive Maximum.
pub struct SendQuota;

impl SessionStatement for SendQuota {
    ghost use Rattle.std.specs.Prelude.{refl};
    ghost use Rattle.mq_rules.specs.declared.rule.Rule.TheVariants.{S07};
    ghost use Rattle.mq_rules.specs.Identifiers.{breaks_S07};

    ghost judged = { S07 };

    ghost breaks = { λ role fate. breaks_S07 role };

    fn rule() -> Rule {
        Rule::S07
    }

    fn is_broken(
        _alloc: Global,
        role: Role,
        _fate: Fate,
        event: &Seen,
        before: &[Seen],
    ) -> Result<bool, Memory> {
        Ok(passes_quota(role, event, before))
    }

    ghost says = { λ role. refl };
}
