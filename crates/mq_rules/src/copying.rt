//! Copies of parts of a packet's body, for notes to own.
ghost use Rattle.std.specs.Prelude.{◌≡◌, ◌<◌, length, map, string_bytes, IfOk, OnErr};
ghost use Rattle.mq_packet.specs.Elements.{filter_view};
ghost use Rattle.mq_rules.specs.Notes.{filter_note};

use crate::faults::Memory;
use crate::text::{NotedFilter, Text};
use mq_packet::{Filter, Filters};
use std::alloc::Global;

/// A copy of the bytes. No bytes need no memory.
#[inline]
pub fn copy_bytes(alloc: Global, bytes: &[u8]) -> Result<Vec<u8>, Memory>
    ensures exact { IfOk result (λ copy. copy.items ≡ bytes.now) }
    ensures needed { OnErr result (0 < length bytes.now) }
{
    let mut copy = Vec::with_capacity(alloc, bytes.len())?;
    copy.extend_from_slice(bytes)?;
    Ok(copy)
}

/// A copy of the text. An empty one needs no memory.
#[inline]
pub fn copy_text(alloc: Global, text: &str) -> Result<String, Memory>
    ensures exact { IfOk result (λ copy. string_bytes copy ≡ text.now) }
    ensures needed { OnErr result (0 < length text.now) }
{
    let mut copy = String::with_capacity(alloc, text.len())?;
    copy.push_str(text)?;
    Ok(copy)
}

/// What is noted of the filter: a copy, with its Subscription Options.
pub fn note_filter_of(alloc: Global, filter: Filter<'_>) -> Result<NotedFilter, Memory>
    ensures { IfOk result (λ note. note ≡ filter_note (filter_view filter.entry)) }
{
    let options = filter.options.unwrap_or(0);
    let filter = Text::of(alloc, filter.filter)?;
    Ok(NotedFilter { filter, options })
}

/// What is noted of the filters, in order. No filters need no memory.
pub fn note_filters(alloc: Global, filters: &Filters<'_>) -> Result<Vec<NotedFilter>, Memory>
    ensures exact { IfOk result (λ notes. notes.items ≡ map filter_note filters.now) }
    ensures needed { OnErr result (0 < length filters.now) }
{
    let mut notes = Vec::new(alloc);
    for filter in filters.iter() {
        notes.push(note_filter_of(alloc, filter)?)?;
    }
    Ok(notes)
}

/// A copy of the filter, with its Subscription Options.
pub fn copy_filter(alloc: Global, filter: &NotedFilter) -> Result<NotedFilter, Memory>
    ensures { IfOk result (λ copy. copy ≡ filter.now) }
{
    let options = filter.options;
    let filter = filter.filter.copy(alloc)?;
    Ok(NotedFilter { filter, options })
}

/// Copies of the filters, in order. No filters need no memory.
pub fn copy_filters(alloc: Global, filters: &[NotedFilter]) -> Result<Vec<NotedFilter>, Memory>
    ensures exact { IfOk result (λ copies. copies.items ≡ filters.now) }
    ensures needed { OnErr result (0 < length filters.now) }
{
    let mut copies = Vec::new(alloc);
    for filter in filters {
        copies.push(copy_filter(alloc, filter)?)?;
    }
    Ok(copies)
}
