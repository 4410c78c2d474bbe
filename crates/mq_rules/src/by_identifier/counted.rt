//! What is kept under Packet Identifiers, with the number of the values.
ghost use Rattle.std.specs.Prelude.{◌≡◌, ◌≤◌, ◌<◌, ◌+◌, ◌&&◌, ℕ, cond, get_or, not, nat_eq, nat_lt, is_some, option_map, true, Some, None, OnOk, OnErr};
ghost use Rattle.mq_rules.specs.ByIdentifier.{value_at};
ghost use Rattle.mq_rules.specs.IdentifierCounts.{ids_where};
ghost use Rattle.mq_rules.specs.KeptOrder.{IsFirst, ids_kept, value_under};

use super::{ByIdentifier, Page, SLOTS};
use crate::faults::Memory;
use std::alloc::Global;
use std::marker::Model;

// How many pages all identifiers have.
const PAGES: usize = 256;

/// What is kept under Packet Identifiers, with the number of the values.
#[derive(Drop)]
pub struct CountedByIdentifier<T> {
    table: ByIdentifier<T>,
    count: usize,
}

impl<T> Model for CountedByIdentifier<T> {
    ghost use Rattle.mq_rules.specs.declared.by_identifier.ByIdentifier.{ByIdentifier as Table};
    ghost use Rattle.std.specs.Prelude.{◌≡◌};
    ghost use Rattle.mq_rules.specs.KeptOrder.{ids_kept};

    ghost Value = { Table T };

    ghost view = { λ s. s.table };

    ghost invariant = { λ s. s.count ≡ ids_kept s.table };
}

// The number of values once one was put where one was or none.
#[inline(always)]
fn count_with(count: usize, had: bool) -> usize
    requires { count ≤ 65536 }
    ensures { cond had 1 0 + result ≡ 1 + count }
{
    if had { count } else { count + 1 }
}

// The number of values once one was taken out, if one was there.
#[inline(always)]
fn count_without(count: usize, had: bool) -> usize
    requires { cond had 1 0 ≤ count }
    ensures { cond had 1 0 + result ≡ count }
{
    if had { count - 1 } else { count }
}

impl<T> CountedByIdentifier<T> {
    /// A table that keeps nothing. It takes no memory.
    pub fn new(alloc: Global) -> Self
        ensures { (i : ℕ) → value_under result i ≡ None }
    {
        CountedByIdentifier {
            table: ByIdentifier::new(alloc),
            count: 0,
        }
    }

    /// How many values are kept.
    #[inline]
    pub fn len(&self) -> usize
        ensures { result ≡ ids_kept self.now }
    {
        self.count
    }
}

impl<T: Copy> CountedByIdentifier<T> {
    /// The value that is kept under an identifier.
    #[inline]
    pub fn get(&self, identifier: u16) -> Option<T>
        ensures { result ≡ value_under self.now identifier }
    {
        self.table.get(identifier)
    }

    /// Whether a value is kept under an identifier.
    #[inline]
    pub fn contains(&self, identifier: u16) -> bool
        ensures { result ≡ is_some (value_under self.now identifier) }
    {
        self.get(identifier).is_some()
    }

    /// Whether a value is kept under another identifier than this one.
    #[inline]
    pub fn any_but(&self, identifier: u16) -> bool
        ensures { result ≡ nat_lt 0 (ids_where (λ i. not (nat_eq identifier i) && is_some (value_under self.now i))) }
    {
        if self.table.contains(identifier) {
            return self.count > 1;
        }
        self.count > 0
    }

    /// Drops all values. If none is kept, the memory of earlier ones stays for later ones.
    #[inline]
    pub fn clear(&mut self)
        ensures { (i : ℕ) → value_under self.new i ≡ None }
    {
        if self.count > 0 {
            *self = CountedByIdentifier::new(self.table.alloc);
        }
    }

    /// Keeps a value under an identifier, in place of the one that is there.
    ///
    /// # Errors
    ///
    /// `Memory` if there is no memory for it. Then all stays as it was.
    #[inline]
    pub fn insert(&mut self, identifier: u16, value: T) -> Result<(), Memory>
        ensures ok { OnOk result ((i : ℕ) → value_under self.new i ≡ cond (nat_eq identifier i) (Some value) (value_under self.old i)) }
        ensures unchanged { OnErr result ((i : ℕ) → value_under self.new i ≡ value_under self.old i) }
    {
        let had = self.table.contains(identifier);
        self.table.insert(identifier, value)?;
        self.count = count_with(self.count, had);
        Ok(())
    }

    /// Puts a value in the place of the one that is kept under an identifier, if one is.
    #[inline]
    pub fn replace(&mut self, identifier: u16, value: T)
        ensures { (i : ℕ) → value_under self.new i ≡ cond (nat_eq identifier i) (option_map (λ _. value) (value_under self.old i)) (value_under self.old i) }
    {
        if self.table.contains(identifier) {
            self.table.put(identifier, Some(value));
        }
    }

    /// Drops the value that is kept under an identifier, and answers it.
    #[inline]
    pub fn remove(&mut self, identifier: u16) -> Option<T>
        ensures removed { result ≡ value_under self.old identifier }
        ensures rest { (i : ℕ) → value_under self.new i ≡ cond (nat_eq identifier i) None (value_under self.old i) }
    {
        let removed = self.table.remove(identifier);
        self.count = count_without(self.count, removed.is_some());
        removed
    }

    /// The value under the least identifier from a number on, and that identifier.
    pub fn first_from(&self, start: usize) -> Option<(u16, T)>
        ensures { IsFirst (value_under self.now) start result }
    {
        if self.count == 0 {
            return None;
        }
        self.table.find_from(start)
    }
}

impl<T: Copy> Page<T> {
    // The first slot from one on that has a value: 256 if none has.
    fn next_used(&self, start: usize) -> usize
        requires { start ≤ 256 }
        ensures later { start ≤ result }
        ensures within { result ≤ 256 }
        ensures nothing { (s : ℕ) → start ≤ s → s < result → get_or self.now s None ≡ None }
    {
        if self.is_empty() {
            return SLOTS;
        }
        for slot in start..SLOTS {
            if self.get(slot).is_some() {
                return slot;
            }
        }
        SLOTS
    }
}

impl<T: Copy> ByIdentifier<T> {
    // The first slot of a page, from one on, that has a value: 256 if none has.
    fn next_slot(&self, page: usize, start: usize) -> usize
        requires { start ≤ 256 }
        ensures later { start ≤ result }
        ensures within { result ≤ 256 }
        ensures nothing { (s : ℕ) → start ≤ s → s < result → value_at self.now.pages.items page s ≡ None }
    {
        if page < self.pages.len() {
            return self.pages[page].next_used(start);
        }
        SLOTS
    }

    // The first page from one on that has a value: 256 if none has.
    fn next_page(&self, start: usize) -> usize
        requires { start ≤ 256 }
        ensures later { start ≤ result }
        ensures within { result ≤ 256 }
        ensures nothing { (p s : ℕ) → start ≤ p → p < result → value_at self.now.pages.items p s ≡ None }
    {
        for page in start..self.pages.len().min(PAGES) {
            if !self.pages[page].is_empty() {
                return page;
            }
        }
        PAGES
    }

    // The first identifier after this one under which something may be kept.
    fn after(&self, identifier: u16) -> usize
        ensures later { identifier < result }
        ensures nothing { (i : ℕ) → identifier < i → i < result → value_under self.now i ≡ None }
    {
        let page = usize::from(identifier) / SLOTS;
        let slot = self.next_slot(page, usize::from(identifier) % SLOTS + 1);
        if slot < SLOTS {
            return page * SLOTS + slot;
        }
        self.next_page(page + 1) * SLOTS
    }

    // The value under the least identifier from a number on, and that identifier.
    fn find_from(&self, start: usize) -> Option<(u16, T)>
        ensures { IsFirst (value_under self.now) start result }
    {
        let mut next = start;
        while let Ok(identifier) = u16::try_from(next) {
            if let Some(value) = self.get(identifier) {
                return Some((identifier, value));
            }
            next = self.after(identifier);
        }
        None
    }
}
