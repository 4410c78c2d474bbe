//! What is kept under Packet Identifiers (MQTT 5.0, section 2.2.1).
ghost use Rattle.std.specs.Prelude.{◌≡◌, ◌==◌, ◌&&◌, ◌+◌, ◌/◌, ◌%◌, ◌^◌, ◌<◌, ◌≤◌, ◌⊎◌, ℕ, [], cond, count_by, get_or, length, nat_eq, nat_lt, is_some, set, Some, None, OnOk, OnErr};
ghost use Rattle.mq_rules.specs.ByIdentifier.{HasPlace, is_kept, kept, page_at, value_at};

mod counted;

use crate::faults::Memory;
pub use counted::CountedByIdentifier;
use std::alloc::Global;
use std::marker::Model;
use std::mem::replace;

// How many identifiers a page is for.
const SLOTS: usize = 256;

/// What is kept under Packet Identifiers (MQTT 5.0, section 2.2.1): at most one value for each.
///
/// The values are in pages of 256 neighbouring identifiers. The list of pages ends with that of the
/// greatest identifier that was kept, and a page has no slots until one of its identifiers is. Of
/// the pages without a value only the one that was emptied last keeps its slots: the next page that
/// needs some takes them.
#[derive(Drop)]
pub struct ByIdentifier<T> {
    alloc: Global,
    pages: Vec<Page<T>>,
    // The number of the page that was emptied last, which may have a value again.
    emptied: usize,
}

// The values of neighbouring identifiers: there is a slot for each of them, or for none.
#[derive(Drop)]
struct Page<T> {
    slots: Vec<Option<T>>,
    // How many slots have a value.
    used: usize,
}

impl<T> Model for Page<T> {
    ghost use Rattle.std.specs.Prelude.{◌≡◌, List, Option, count_by, is_some};

    ghost Value = { List (Option T) };

    ghost view = { λ page. page.slots.items };

    ghost invariant = { λ page. page.used ≡ count_by is_some page.slots.items };
}

// The page of an identifier.
#[inline(always)]
fn page_of(identifier: u16) -> usize
    ensures { result ≡ identifier / 256 }
{
    usize::from(identifier) / SLOTS
}

// Its slot in that page.
#[inline(always)]
fn slot_of(identifier: u16) -> usize
    ensures { result ≡ identifier % 256 }
{
    usize::from(identifier) % SLOTS
}

// How many slots have a value once one of them was changed.
#[inline(always)]
fn used_after(used: usize, had: bool, has: bool) -> usize
    requires had { cond had 1 0 ≤ used }
    requires room { used < 2 ^ 63 }
    ensures { cond had 1 0 + result ≡ used + cond has 1 0 }
{
    used - usize::from(had) + usize::from(has)
}

impl<T> Page<T> {
    // A page without slots. It takes no memory.
    fn new(alloc: Global) -> Self
        ensures { result ≡ [] }
    {
        Page {
            slots: Vec::new(alloc),
            used: 0,
        }
    }

    // How many slots there are.
    #[inline(always)]
    fn len(&self) -> usize
        ensures { result ≡ length self.now }
    {
        self.slots.len()
    }

    // Whether no slot has a value.
    #[inline(always)]
    fn is_empty(&self) -> bool
        ensures { result ≡ nat_eq (count_by is_some self.now) 0 }
    {
        self.used == 0
    }
}

impl<T: Copy> Page<T> {
    // What is in a slot.
    #[inline(always)]
    fn get(&self, slot: usize) -> Option<T>
        ensures { result ≡ get_or self.now slot None }
    {
        if slot < self.slots.len() {
            return self.slots[slot];
        }
        None
    }

    // Makes empty slots until there are so many.
    fn reach(&mut self, count: usize) -> Result<(), Memory>
        ensures there { OnOk result (count ≤ length self.new) }
        ensures same { (s : ℕ) → get_or self.new s None ≡ get_or self.old s None }
    {
        if self.slots.len() < count {
            self.slots.resize(count, None)?;
        }
        Ok(())
    }

    // Puts a value, or nothing, into a slot.
    #[inline(always)]
    fn put(&mut self, slot: usize, value: Option<T>)
        requires { slot < length self.old }
        ensures { self.new ≡ set self.old slot value }
    {
        self.used = used_after(self.used, self.slots[slot].is_some(), value.is_some());
        self.slots[slot] = value;
    }

    // Keeps a value in each slot in which another page keeps one.
    fn keep_where<U: Copy>(&mut self, others: &Page<U>, value: T)
        requires { length others.now ≤ length self.old }
        ensures { (s : ℕ) → get_or self.new s None ≡ cond (is_some (get_or others.now s None)) (Some value) (get_or self.old s None) }
    {
        for (slot, other) in others.slots.iter().enumerate() {
            if other.is_some() {
                self.put(slot, Some(value));
            }
        }
    }
}

impl<T> ByIdentifier<T> {
    /// A table that keeps nothing. It takes no memory.
    pub fn new(alloc: Global) -> Self
        ensures { (i : ℕ) → kept result i ≡ None }
    {
        ByIdentifier {
            alloc,
            pages: Vec::new(alloc),
            emptied: 0,
        }
    }
}

impl<T: Copy> ByIdentifier<T> {
    /// The value that is kept under an identifier.
    #[inline]
    pub fn get(&self, identifier: u16) -> Option<T>
        ensures { result ≡ kept self.now identifier }
    {
        let page = page_of(identifier);
        if page < self.pages.len() {
            return self.pages[page].get(slot_of(identifier));
        }
        None
    }

    /// Whether a value is kept under an identifier.
    #[inline]
    pub fn contains(&self, identifier: u16) -> bool
        ensures { result ≡ is_kept self.now identifier }
    {
        self.get(identifier).is_some()
    }

    // Whether there is a slot for an identifier.
    #[inline(always)]
    fn has_slot(&self, identifier: u16) -> bool
        ensures { result ≡ (nat_lt (identifier % 256) (length (page_at self.now.pages.items (identifier / 256)))) }
    {
        let page = page_of(identifier);
        page < self.pages.len() && slot_of(identifier) < self.pages[page].len()
    }

    // Makes pages without slots until there is this one.
    fn make_pages(&mut self, page: usize) -> Result<(), Memory>
        ensures there { OnOk result (page < length self.new.pages.items) }
        ensures same { (p s : ℕ) → value_at self.new.pages.items p s ≡ value_at self.old.pages.items p s }
    {
        for _ in self.pages.len()..=page {
            self.pages.push(Page::new(self.alloc))?;
        }
        Ok(())
    }

    // Takes the slots of the page that was emptied last, if it has no value again.
    fn take_spare(&mut self) -> Page<T>
        ensures empty { (s : ℕ) → get_or result s None ≡ None }
        ensures same { (p s : ℕ) → value_at self.new.pages.items p s ≡ value_at self.old.pages.items p s }
        ensures len { length self.new.pages.items ≡ length self.old.pages.items }
    {
        let fresh = Page::new(self.alloc);
        if self.emptied < self.pages.len() {
            if self.pages[self.emptied].is_empty() {
                return replace(&mut self.pages[self.emptied], fresh);
            }
        }
        fresh
    }

    // Gives a page without slots the spare ones, if there are any.
    fn reuse(&mut self, page: usize)
        requires { page < length self.old.pages.items }
        ensures same { (p s : ℕ) → value_at self.new.pages.items p s ≡ value_at self.old.pages.items p s }
        ensures len { length self.new.pages.items ≡ length self.old.pages.items }
    {
        if self.pages[page].len() == 0 {
            let spare = self.take_spare();
            self.pages[page] = spare;
        }
    }

    // Notes that a page has no value any more: its slots are the spare ones. Those of the page that
    // was emptied before it are let go.
    #[inline(never)]
    fn retire(&mut self, page: usize)
        ensures { (p s : ℕ) → value_at self.new.pages.items p s ≡ value_at self.old.pages.items p s }
    {
        let _spare = self.take_spare();
        self.emptied = page;
    }

    // Does so if the page has no value, and unless it was noted already.
    #[inline(always)]
    fn settle(&mut self, page: usize)
        requires { page < length self.old.pages.items }
        ensures { (p s : ℕ) → value_at self.new.pages.items p s ≡ value_at self.old.pages.items p s }
    {
        if page != self.emptied {
            if self.pages[page].is_empty() {
                self.retire(page);
            }
        }
    }

    // Makes a page, and empty slots in it until there are so many.
    fn make_slots(&mut self, page: usize, count: usize) -> Result<(), Memory>
        ensures there { OnOk result (count ≤ length (page_at self.new.pages.items page)) }
        ensures same { (p s : ℕ) → value_at self.new.pages.items p s ≡ value_at self.old.pages.items p s }
    {
        self.make_pages(page)?;
        self.reuse(page);
        self.pages[page].reach(count)
    }

    // Puts a value, or nothing, into the slot of an identifier.
    #[inline(always)]
    fn put(&mut self, identifier: u16, value: Option<T>)
        requires { HasPlace self.old.pages.items (identifier / 256) (identifier % 256) }
        ensures put { (i : ℕ) → kept self.new i ≡ cond (nat_eq identifier i) value (kept self.old i) }
        ensures len { length self.new.pages.items ≡ length self.old.pages.items }
    {
        self.pages[page_of(identifier)].put(slot_of(identifier), value);
    }

    /// Keeps a value under an identifier, in place of the one that is there.
    ///
    /// # Errors
    ///
    /// `Memory` if there is no memory for it.
    #[inline]
    pub fn insert(&mut self, identifier: u16, value: T) -> Result<(), Memory>
        ensures ok { OnOk result ((i : ℕ) → kept self.new i ≡ cond (nat_eq identifier i) (Some value) (kept self.old i)) }
        ensures unchanged { OnErr result ((i : ℕ) → kept self.new i ≡ kept self.old i) }
    {
        if !self.has_slot(identifier) {
            self.make_slot(identifier)?;
        }
        self.put(identifier, Some(value));
        Ok(())
    }

    // Makes the slot of an identifier.
    #[inline(never)]
    fn make_slot(&mut self, identifier: u16) -> Result<(), Memory>
        ensures there { OnOk result (HasPlace self.new.pages.items (identifier / 256) (identifier % 256)) }
        ensures same { (i : ℕ) → kept self.new i ≡ kept self.old i }
    {
        self.make_slots(page_of(identifier), SLOTS)
    }

    /// Removes the value that is kept under an identifier, and returns it.
    #[inline]
    pub fn remove(&mut self, identifier: u16) -> Option<T>
        ensures removed { result ≡ kept self.old identifier }
        ensures rest { (i : ℕ) → kept self.new i ≡ cond (nat_eq identifier i) None (kept self.old i) }
    {
        let removed = self.get(identifier);
        if removed.is_some() {
            self.put(identifier, None);
            self.settle(page_of(identifier));
        }
        removed
    }

    /// Keeps a value under each identifier under which another table keeps one, in place of what is
    /// there. It looks only at pages that have a value.
    ///
    /// # Errors
    ///
    /// `Memory` if there is no memory for it. Then it may have done so for some of them.
    pub fn insert_all<U: Copy>(&mut self, others: &ByIdentifier<U>, value: T) -> Result<(), Memory>
        ensures ok { OnOk result ((i : ℕ) → kept self.new i ≡ cond (is_kept others.now i) (Some value) (kept self.old i)) }
        ensures partial { OnErr result ((i : ℕ) → (kept self.new i ≡ kept self.old i) ⊎ (kept self.new i ≡ cond (is_kept others.now i) (Some value) (kept self.old i))) }
    {
        for (page, other) in others.pages.iter().enumerate() {
            self.insert_page(page, other, value)?;
        }
        Ok(())
    }

    // The same, under the identifiers of one page.
    fn insert_page<U: Copy>(
        &mut self,
        page: usize,
        others: &Page<U>,
        value: T,
    ) -> Result<(), Memory>
        ensures unchanged { OnErr result ((p s : ℕ) → value_at self.new.pages.items p s ≡ value_at self.old.pages.items p s) }
        ensures ok { OnOk result ((p s : ℕ) → value_at self.new.pages.items p s ≡ cond (nat_eq page p && is_some (get_or others.now s None)) (Some value) (value_at self.old.pages.items p s)) }
    {
        if others.is_empty() {
            return Ok(());
        }
        self.make_slots(page, others.len())?;
        self.pages[page].keep_where(others, value);
        Ok(())
    }
}
