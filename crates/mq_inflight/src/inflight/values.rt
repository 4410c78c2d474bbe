//! What is kept of the Packet Identifiers that are open, in the order of these.
ghost use Rattle.std.specs.Prelude.{◌≡◌, [], ◌∷◌, MatchOption};
ghost use Rattle.mq_rules.specs.KeptOrder.{value_under, values_of};

use super::entry::Entry;
use mq_rules::CountedByIdentifier;
use std::marker::Model;

/// What is left of the values of a table. A contract sees them, in the order of their identifiers.
#[derive(Drop)]
pub struct Values<'a> {
    entries: &'a CountedByIdentifier<Entry>,
    /// The first identifier whose value is left.
    next: usize,
    /// How many values are left.
    left: usize,
}

impl<'a> Model for Values<'a> {
    ghost use Rattle.std.specs.Prelude.{◌≡◌, ◌≤◌, ◌-◌, List, length};
    ghost use Rattle.mq_rules.specs.KeptOrder.{found_from, value_under};
    ghost use Rattle.mq_inflight.specs.declared.inflight.entry.Entry.{Entry};

    ghost Value = { List Entry };

    ghost view = { λ s. found_from (value_under s.entries.now) s.next (65536 - s.next) };

    ghost invariant = { λ s. (s.next ≤ 65536) × (s.left ≡ length (found_from (value_under s.entries.now) s.next (65536 - s.next))) };
}

/// The values of a table.
pub fn values_in(entries: &CountedByIdentifier<Entry>) -> Values<'_>
    ensures { result ≡ values_of (value_under entries.now) }
{
    Values {
        entries,
        next: 0,
        left: entries.len(),
    }
}

impl<'a> Values<'a> {
    // The first value that is left, which then isn't any more. After the last one it doesn't go
    // over the identifiers that are left.
    fn take_first(&mut self) -> Option<Entry>
        ensures { MatchOption result ((self.old ≡ []) × (self.new ≡ [])) (λ entry. self.old ≡ entry ∷ self.new) }
    {
        if self.left == 0 {
            return None;
        }
        let Some((identifier, entry)) = self.entries.first_from(self.next) else {
            return None;
        };
        self.next = usize::from(identifier) + 1;
        self.left -= 1;
        Some(entry)
    }
}

impl<'a> Iterator for Values<'a> {
    type Item = Entry;

    ghost use Rattle.std.specs.Iterator.{YieldsFirstBy, item_count};

    ghost next_gives = { YieldsFirstBy (λ e. e) (λ s. s) };

    ghost remaining = { item_count (λ s. s) };

    fn next(&mut self) -> Option<Entry> {
        self.take_first()
    }
}
