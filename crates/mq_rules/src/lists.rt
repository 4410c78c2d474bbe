//! Lists that notes own. A contract sees each as a plain list.
//!
//! Most lists have one filter, or one Reason Code: it is stored in the value itself, and takes no
//! memory of its own if the filter is short. An empty list takes none either, so making one can't
//! fail.
ghost use Rattle.std.specs.Prelude.{◌≡◌, ◌∷◌, [], IfSome};
ghost use Rattle.mq_packet.specs.Elements.{filter_view};

use crate::copying::{copy_bytes, copy_filter, copy_filters, note_filter_of, note_filters};
use crate::faults::Memory;
use crate::text::NotedFilter;
use mq_packet::{Codes, Filter, Filters};
use std::alloc::Global;
use std::marker::Model;
use std::slice;

/// Where the filters of a list are.
#[derive(Debug, Drop)]
enum FilterForm {
    One(NotedFilter),
    Many(Vec<NotedFilter>),
}

/// The Topic Filters of a SUBSCRIBE or an UNSUBSCRIBE, in order.
#[derive(Debug, Drop)]
pub struct FilterList {
    form: FilterForm,
}

impl Model for FilterList {
    ghost use Rattle.std.specs.Prelude.{List};
    ghost use Rattle.mq_rules.specs.declared.text.NotedFilter.{NotedFilter};
    ghost use Rattle.mq_rules.specs.Lists.{form_filters};

    ghost Value = { List NotedFilter };

    ghost view = { λ l. form_filters l.form };
}

// The filter, if it is the only one.
fn only_filter<'a>(filters: &Filters<'a>) -> Option<Filter<'a>>
    ensures { IfSome result (λ filter. filters.now ≡ filter_view filter ∷ []) }
{
    let mut rest = filters.iter();
    let first = rest.next()?;
    match rest.next() {
        None => Some(first),
        Some(_) => None,
    }
}

impl FilterList {
    ghost use Rattle.std.specs.Prelude.{◌≡◌, ◌<◌, ◌==◌, [], length, map, IfOk, OnErr};
    ghost use Rattle.mq_rules.specs.Notes.{filter_note};

    /// No filters.
    #[inline]
    pub fn empty(alloc: Global) -> FilterList
        ensures { result ≡ [] }
    {
        FilterList {
            form: FilterForm::Many(Vec::new(alloc)),
        }
    }

    /// Copies of the filters, with their Subscription Options, or 0 if a filter has none, as in an
    /// UNSUBSCRIBE.
    ///
    /// # Errors
    ///
    /// `Memory` if there is no memory for them. An empty list needs none.
    pub fn of(alloc: Global, filters: &Filters<'_>) -> Result<FilterList, Memory>
        ensures exact { IfOk result (λ copies. copies ≡ map filter_note filters.now) }
        ensures needed { OnErr result (0 < length filters.now) }
    {
        let form = match only_filter(filters) {
            Some(filter) => FilterForm::One(note_filter_of(alloc, filter)?),
            None => FilterForm::Many(note_filters(alloc, filters)?),
        };
        Ok(FilterList { form })
    }

    /// A copy of the list.
    ///
    /// # Errors
    ///
    /// `Memory` if there is no memory for it. An empty list needs none.
    pub fn copy(&self, alloc: Global) -> Result<FilterList, Memory>
        ensures exact { IfOk result (λ copy. copy ≡ self.now) }
        ensures needed { OnErr result (0 < length self.now) }
    {
        let form = match &self.form {
            FilterForm::One(filter) => FilterForm::One(copy_filter(alloc, filter)?),
            FilterForm::Many(filters) => {
                FilterForm::Many(copy_filters(alloc, filters.as_slice())?)
            }
        };
        Ok(FilterList { form })
    }

    /// The filters, in order.
    #[inline]
    pub fn as_slice(&self) -> &[NotedFilter]
        ensures { result.now ≡ self.now }
    {
        match &self.form {
            FilterForm::One(filter) => slice::from_ref(filter),
            FilterForm::Many(filters) => filters.as_slice(),
        }
    }

    /// How many there are.
    #[inline]
    pub fn len(&self) -> usize
        ensures { result ≡ length self.now }
    {
        self.as_slice().len()
    }

    /// Whether there are none.
    #[inline]
    pub fn is_empty(&self) -> bool
        ensures { result ≡ (length self.now == 0) }
    {
        self.len() == 0
    }
}

/// Where the Reason Codes of a list are.
#[derive(Debug, Drop)]
enum CodeForm {
    One(u8),
    Many(Vec<u8>),
}

/// The Reason Codes of a SUBACK or an UNSUBACK, in order.
#[derive(Debug, Drop)]
pub struct CodeList {
    form: CodeForm,
}

impl Model for CodeList {
    ghost use Rattle.std.specs.Prelude.{List, ℕ};
    ghost use Rattle.mq_rules.specs.Lists.{form_codes};

    ghost Value = { List ℕ };

    ghost view = { λ l. form_codes l.form };
}

impl CodeList {
    ghost use Rattle.std.specs.Prelude.{◌≡◌, ◌<◌, ◌==◌, [], length, IfOk, OnErr};

    /// No Reason Codes.
    #[inline]
    pub fn empty(alloc: Global) -> CodeList
        ensures { result ≡ [] }
    {
        CodeList {
            form: CodeForm::Many(Vec::new(alloc)),
        }
    }

    // Copies of these Reason Codes.
    fn of_bytes(alloc: Global, codes: &[u8]) -> Result<CodeList, Memory>
        ensures exact { IfOk result (λ copies. copies ≡ codes.now) }
        ensures needed { OnErr result (1 < length codes.now) }
    {
        let form = match codes {
            [code] => CodeForm::One(*code),
            codes => CodeForm::Many(copy_bytes(alloc, codes)?),
        };
        Ok(CodeList { form })
    }

    /// Copies of the Reason Codes.
    ///
    /// # Errors
    ///
    /// `Memory` if there is no memory for them. At most one needs none.
    pub fn of(alloc: Global, codes: &Codes<'_>) -> Result<CodeList, Memory>
        ensures exact { IfOk result (λ copies. copies ≡ codes.now) }
        ensures needed { OnErr result (1 < length codes.now) }
    {
        CodeList::of_bytes(alloc, codes.as_bytes())
    }

    /// A copy of the list.
    ///
    /// # Errors
    ///
    /// `Memory` if there is no memory for it. At most one Reason Code needs none.
    pub fn copy(&self, alloc: Global) -> Result<CodeList, Memory>
        ensures exact { IfOk result (λ copy. copy ≡ self.now) }
        ensures needed { OnErr result (1 < length self.now) }
    {
        CodeList::of_bytes(alloc, self.as_slice())
    }

    /// The Reason Codes, in order.
    #[inline]
    pub fn as_slice(&self) -> &[u8]
        ensures { result.now ≡ self.now }
    {
        match &self.form {
            CodeForm::One(code) => slice::from_ref(code),
            CodeForm::Many(codes) => codes.as_slice(),
        }
    }

    /// How many there are.
    #[inline]
    pub fn len(&self) -> usize
        ensures { result ≡ length self.now }
    {
        self.as_slice().len()
    }

    /// Whether there are none.
    #[inline]
    pub fn is_empty(&self) -> bool
        ensures { result ≡ (length self.now == 0) }
    {
        self.len() == 0
    }
}
