//! The filters of a SUBSCRIBE or UNSUBSCRIBE.

ghost use Rattle.std.specs.Prelude.{◌≡◌, ◌<◌, ◌^◌, length, Bool, [], ◌∷◌, Some, None, List, IfSome, IsSomeAnd, MatchOption};
ghost use Rattle.std.specs.Iterator.{YieldsFirstBy, item_count};
ghost use Rattle.mq_packet.specs.Entries.{AskedFilter};
ghost use Rattle.mq_packet.specs.Asking.{filters_spelling, AreAsked, AreListed};
ghost use Rattle.mq_packet.specs.Elements.{filter_view, asked_at, filters_in};

use crate::reading::check_filters;
use mq_wire::Cursor;
use std::marker::Model;

/// The filters of a SUBSCRIBE or UNSUBSCRIBE: at least one, each of them valid (MQTT 5.0, sections
/// 3.8.3, 3.10.3 and 4.7). A contract sees them as a list.
#[derive(Debug, Drop)]
pub struct Filters<'a> {
    bytes: &'a [u8],
    options: bool,
}

/// A Topic Filter as a SUBSCRIBE or UNSUBSCRIBE has it (MQTT 5.0, sections 3.8.3 and 3.10.3).
#[derive(Clone, Copy, Debug, PartialEq, Eq)]
pub struct Filter<'a> {
    /// The Topic Filter.
    pub filter: &'a str,
    /// The Subscription Options, which only a SUBSCRIBE has (MQTT 5.0, section 3.8.3.1). Bits 1 and
    /// 0 are the Maximum QoS, 0 to 2; bit 2 is No Local; bit 3 is Retain As Published; bits 5 and 4
    /// are Retain Handling, 0 to 2; bits 7 and 6 are 0.
    pub options: Option<u8>,
}

impl<'a> Model for Filters<'a> {
    ghost use Rattle.std.specs.Prelude.{List};
    ghost use Rattle.mq_packet.specs.Entries.{AskedFilter};
    ghost use Rattle.mq_packet.specs.Asking.{AreFilters};
    ghost use Rattle.mq_packet.specs.Elements.{filters_in};

    ghost Value = { List AskedFilter };

    ghost view = { λ f. filters_in f.options f.bytes.now };

    ghost invariant = { λ f. AreFilters f.options f.bytes.now };
}

impl<'a> Filters<'a> {
    ghost use Rattle.mq_packet.specs.Asking.{AreFilters};

    /// The filters that the bytes spell, one after another: each with its Subscription Options
    /// after it if `options` is true, as in a SUBSCRIBE, and without if it is false, as in an
    /// UNSUBSCRIBE (MQTT 5.0, sections 3.8.3 and 3.10.3).
    ///
    /// `None` if the bytes don't spell such filters: if there are none, if one is misspelled or
    /// invalid, if options are missing or invalid, or if something is left over.
    ///
    /// # Examples
    ///
    /// ```
    /// let filters = Filters::of(b"\x00\x03a/b\x01", true).ok_or("no filters")?;
    /// let wanted = Filter {
    ///     filter: "a/b",
    ///     options: Some(1),
    /// };
    /// assert_eq!(rt; filters.iter().next(), Some(wanted));
    /// ```
    #[tactic(auto, using(crate::proofs::FilterLaws::filters_spelled, crate::proofs::FilterLaws::filters_asked))]
    pub fn of(bytes: &'a [u8], options: bool) -> Option<Filters<'a>>
        ensures some { IfSome result (λ filters. (bytes.entry.now ≡ filters_spelling filters) × AreAsked options filters) }
        ensures all { (fs : List AskedFilter) → AreAsked options fs → bytes.entry.now ≡ filters_spelling fs → IsSomeAnd result (λ filters. filters ≡ fs) }
    {
        match check_filters(Cursor::new(bytes), options) {
            Ok(()) => Some(Filters { bytes, options }),
            Err(_) => None,
        }
    }

    // The filters of bytes that are those of a body.
    pub(crate) fn from_checked(bytes: &'a [u8], options: bool) -> Filters<'a>
        requires { AreFilters options bytes.now }
        ensures { result ≡ filters_in options bytes.entry.now }
    {
        Filters { bytes, options }
    }

    /// Whether the filters have Subscription Options: in a SUBSCRIBE each has, in an UNSUBSCRIBE
    /// none.
    #[tactic(auto, using(crate::proofs::FilterLaws::filters_asked))]
    pub fn have_options(&self) -> bool
        ensures { AreAsked result self.now }
    {
        self.options
    }

    /// The bytes that spell the filters, one after another. Filters have exactly one spelling.
    #[tactic(auto, using(crate::proofs::FilterLaws::filters_spelled, crate::proofs::FilterLaws::filters_asked))]
    pub fn as_bytes(&self) -> &'a [u8]
        ensures spelled { result.now ≡ filters_spelling self.now }
        ensures asked { (options : Bool) × AreAsked options self.now }
    {
        self.bytes
    }

    /// The filters, in order.
    #[tactic(auto, using(crate::proofs::FilterLaws::filters_listed))]
    pub fn iter(&self) -> FiltersIter<'a>
        ensures items { result ≡ self.now }
        ensures bound { length result < 2 ^ 63 }
    {
        FiltersIter {
            cursor: Cursor::new(self.bytes),
            options: self.options,
        }
    }
}

/// The filters of a SUBSCRIBE or UNSUBSCRIBE, in order.
#[derive(Debug, Drop)]
pub struct FiltersIter<'a> {
    cursor: Cursor<'a>,
    options: bool,
}

impl<'a> Model for FiltersIter<'a> {
    ghost use Rattle.std.specs.Prelude.{List};
    ghost use Rattle.mq_packet.specs.Entries.{AskedFilter};
    ghost use Rattle.mq_packet.specs.Asking.{AreListed};
    ghost use Rattle.mq_packet.specs.Elements.{filters_in};

    ghost Value = { List AskedFilter };

    ghost view = { λ s. filters_in s.options s.cursor.rest };

    ghost invariant = { λ s. AreListed s.options s.cursor.rest };
}

// The filter at the front of what is left, if there is one.
#[tactic(auto, unfolding(crate::specs::Elements::asked_at))]
fn filter_at<'a>(cursor: &mut Cursor<'a>, options: bool) -> Option<Filter<'a>>
    ensures { MatchOption result (asked_at options cursor.old.rest ≡ None) (λ f. asked_at options cursor.old.rest ≡ Some (filter_view f, cursor.new.rest)) }
{
    let Ok(filter) = cursor.text() else {
        return None;
    };
    if !options {
        return Some(Filter {
            filter,
            options: None,
        });
    }
    let Ok(options) = cursor.u8() else {
        return None;
    };
    Some(Filter {
        filter,
        options: Some(options),
    })
}

// The next filter at the front of what is left; none only if nothing is left.
fn next_filter<'a>(cursor: &mut Cursor<'a>, options: bool) -> Option<Filter<'a>>
    requires { AreListed options cursor.now.rest }
    ensures listed { AreListed options cursor.new.rest }
    ensures gives { MatchOption result ((filters_in options cursor.old.rest ≡ []) × (filters_in options cursor.new.rest ≡ [])) (λ f. filters_in options cursor.old.rest ≡ filter_view f ∷ filters_in options cursor.new.rest) }
{
    let Some(filter) = filter_at(cursor, options) else {
        *cursor = Cursor::new(&[]);
        return None;
    };
    Some(filter)
}

impl<'a> Iterator for FiltersIter<'a> {
    type Item = Filter<'a>;

    ghost next_gives = { YieldsFirstBy filter_view (λ s. s) };

    ghost remaining = { item_count (λ s. s) };

    fn next(&mut self) -> Option<Filter<'a>> {
        next_filter(&mut self.cursor, self.options)
    }
}
