//! What the watchers ask of each event that is taken in, beside the words of `Noted`.
ghost use Rattle.std.specs.Prelude.{◌≡◌, ◌&&◌, ◌||◌, cond, not};
ghost use Rattle.mq_rules.specs.Notes.{is_open};
ghost use Rattle.mq_fates.specs.Selecting as selecting;
ghost use Rattle.mq_fates.specs.Taking as taking;

mod delivering;
mod exchanges;
mod sending;

use delivering::{
    bare_may_concern_releases, bare_may_concern_subscriptions, note_may_concern_releases,
    note_may_concern_subscriptions,
};
pub use exchanges::is_acknowledged;
use exchanges::{
    bare_may_concern_messages, bare_may_concern_requests, note_may_concern_messages,
    note_may_concern_requests,
};
use mq_rules::{Bare, Note, Noted, Role};
pub use sending::RECEIVE_MAXIMUM;
use sending::{
    announced, bare_may_concern_identifiers, bare_may_concern_pings, bare_may_concern_quota, ends,
    note_may_concern_identifiers, note_may_concern_pings, note_may_concern_quota,
};

/// An event that a watcher of sessions takes in: each watcher has a word that tells whether the
/// event may concern it.
pub trait Taken: Noted {
    /// Whether no REST binds after it on its connection.
    fn ends(&self) -> bool
        ensures { result ≡ taking.ends_by (Self.note self.now) };

    /// The Receive Maximum that the peer of an end in this role announces by it.
    fn announced(&self, role: Role) -> Option<u16>
        ensures { result ≡ taking.announced role (Self.note self.now) };

    /// Whether it may have to do with Packet Identifiers that are in use.
    fn may_concern_identifiers(&self) -> bool
        ensures { result ≡ selecting.may_concern_identifiers (Self.note self.now) };

    /// Whether it may have to do with the send quota.
    fn may_concern_quota(&self) -> bool
        ensures { result ≡ selecting.may_concern_quota (Self.note self.now) };

    /// Whether it may have to do with pings.
    fn may_concern_pings(&self) -> bool
        ensures { result ≡ selecting.may_concern_pings (Self.note self.now) };

    /// Whether it may have to do with an exchange of messages.
    fn may_concern_messages(&self) -> bool
        ensures { result ≡ selecting.may_concern_messages (Self.note self.now) };

    /// Whether it may have to do with a SUBSCRIBE, an UNSUBSCRIBE or its answer.
    fn may_concern_requests(&self) -> bool
        ensures { result ≡ selecting.may_concern_requests (Self.note self.now) };

    /// Whether it may have to do with a QoS 2 message that is received.
    fn may_concern_releases(&self) -> bool
        ensures { result ≡ selecting.may_concern_releases (Self.note self.now) };

    /// Whether it may have to do with what a client subscribed to, where deliveries are judged or
    /// not.
    fn may_concern_subscriptions(&self, bound: bool) -> bool
        ensures { result ≡ selecting.may_concern_subscriptions bound (Self.note self.now) };
}

impl Taken for Note {
    fn ends(&self) -> bool {
        ends(self)
    }

    fn announced(&self, role: Role) -> Option<u16> {
        announced(role, self)
    }

    #[inline(always)]
    fn may_concern_identifiers(&self) -> bool {
        note_may_concern_identifiers(self)
    }

    #[inline(always)]
    fn may_concern_quota(&self) -> bool {
        note_may_concern_quota(self)
    }

    #[inline(always)]
    fn may_concern_pings(&self) -> bool {
        note_may_concern_pings(self)
    }

    #[inline(always)]
    fn may_concern_messages(&self) -> bool {
        note_may_concern_messages(self)
    }

    #[inline(always)]
    fn may_concern_requests(&self) -> bool {
        note_may_concern_requests(self)
    }

    #[inline(always)]
    fn may_concern_releases(&self) -> bool {
        note_may_concern_releases(self)
    }

    #[inline(always)]
    fn may_concern_subscriptions(&self, bound: bool) -> bool {
        note_may_concern_subscriptions(bound, self)
    }
}

impl Taken for Bare<'_> {
    // It is no DISCONNECT.
    #[inline(always)]
    fn ends(&self) -> bool {
        false
    }

    #[inline(always)]
    fn announced(&self, _: Role) -> Option<u16> {
        None
    }

    #[inline(always)]
    fn may_concern_identifiers(&self) -> bool {
        bare_may_concern_identifiers(*self)
    }

    #[inline(always)]
    fn may_concern_quota(&self) -> bool {
        bare_may_concern_quota(*self)
    }

    #[inline(always)]
    fn may_concern_pings(&self) -> bool {
        bare_may_concern_pings(*self)
    }

    #[inline(always)]
    fn may_concern_messages(&self) -> bool {
        bare_may_concern_messages(*self)
    }

    #[inline(always)]
    fn may_concern_requests(&self) -> bool {
        bare_may_concern_requests(*self)
    }

    #[inline(always)]
    fn may_concern_releases(&self) -> bool {
        bare_may_concern_releases(*self)
    }

    #[inline(always)]
    fn may_concern_subscriptions(&self, bound: bool) -> bool {
        bare_may_concern_subscriptions(bound, *self)
    }
}

/// Whether no REST binds any more on the latest connection after an event, given whether that was
/// so before it: a DISCONNECT, bytes that break a rule or a lost direction end it, and the next
/// OPEN begins anew.
#[inline(always)]
pub fn ended_after<E: Taken>(ended: bool, event: &E) -> bool
    ensures { result ≡ (taking.ends_by (E.note event.now) || (not (is_open (E.note event.now)) && ended)) }
{
    event.ends() || (!event.is_open() && ended)
}

/// The position of the latest OPEN after an event.
pub fn opened_after(opened: u32, position: u32, opens: bool) -> u32
    ensures { result ≡ cond opens position opened }
{
    if opens { position } else { opened }
}
