//! What a SUBSCRIBE asks for: wildcards, a Subscription Identifier and shared subscriptions.
ghost use Rattle.std.specs.Prelude.{◌≡◌};
ghost use Rattle.std.specs.List.{after_first, before_first};
ghost use Rattle.mq_packet.specs.Elements.{filter_view};
ghost use Rattle.mq_rules.specs.Wishes as asked;
ghost use Rattle.mq_rules.specs.Wishes.{is_slash, nothing_wished, wishes_of, wishes_with};

use crate::packet_note::WishesNote;
use mq_packet::{Filter, Filters};
use mq_topic::check_name;

/// Whether a Topic Filter asks for a shared subscription: it begins with `$share/` (MQTT 5.0,
/// section 4.8.2).
pub fn is_share(filter: &str) -> bool
    ensures { result ≡ asked.is_share filter.now }
{
    filter.starts_with("$share/")
}

// What stands before the first `/`: all if there is none.
fn first_level(text: &str) -> &str
    ensures { result.now ≡ before_first is_slash text.now }
{
    match text.split_once('/') {
        Some((level, _)) => level,
        None => text,
    }
}

// What stands after the first `/`: nothing if there is none.
fn later_levels(text: &str) -> &str
    ensures { result.now ≡ after_first is_slash text.now }
{
    match text.split_once('/') {
        Some((_, levels)) => levels,
        None => "",
    }
}

/// The Topic Filter of a shared subscription, which follows its ShareName: what stands after the
/// second `/`, or nothing if there is none (MQTT 5.0, section 4.8.2).
pub fn shared_filter(filter: &str) -> &str
    ensures { result.now ≡ asked.shared_filter filter.now }
{
    later_levels(later_levels(filter))
}

// Whether a filter has a wildcard; one of a shared subscription, after its name.
fn asks_by_wildcard(filter: &str) -> bool
    ensures { result ≡ asked.asks_by_wildcard filter.now }
{
    if is_share(filter) {
        !check_name(shared_filter(filter))
    } else {
        !check_name(filter)
    }
}

// Whether a filter asks for a shared subscription, but its name is empty or has a wildcard, or no
// filter follows.
fn is_misnamed(filter: &str) -> bool
    ensures { result ≡ asked.is_misnamed filter.now }
{
    if !is_share(filter) {
        return false;
    }
    let levels = later_levels(filter);
    let name = first_level(levels);
    name.is_empty() || !check_name(name) || later_levels(levels).is_empty()
}

// Whether a filter asks for a shared subscription with No Local (MQTT 5.0, section 3.8.3.1).
fn is_shared_no_local(filter: Filter<'_>) -> bool
    ensures { result ≡ asked.is_shared_no_local (filter_view filter.entry) }
{
    is_share(filter.filter) && filter.options.unwrap_or(0) / 4 % 2 == 1
}

impl WishesNote {
    /// Nothing.
    pub fn nothing() -> WishesNote
        ensures { result ≡ nothing_wished }
    {
        WishesNote {
            has_wildcard: false,
            subscription_identifier: None,
            has_share: false,
            has_misnamed_share: false,
            has_no_local_share: false,
        }
    }

    /// What a SUBSCRIBE with these filters asks for, which has this Subscription Identifier, or none.
    #[tactic(auto, using(crate::proofs::WishesLaws::wishes_none))]
    pub fn of(identifier: Option<u32>, filters: &Filters<'_>) -> WishesNote
        ensures { result ≡ wishes_of identifier filters.now }
    {
        let mut wishes = WishesNote::nothing();
        wishes.subscription_identifier = identifier;
        for filter in filters.iter() {
            wishes = wishes.with_filter(filter);
        }
        wishes
    }

    // What is asked for with one filter more.
    fn with_filter(self, filter: Filter<'_>) -> WishesNote
        ensures { result ≡ wishes_with self (filter_view filter.entry) }
    {
        // most filters ask for no shared subscription
        if !is_share(filter.filter) {
            return WishesNote {
                has_wildcard: self.has_wildcard || !check_name(filter.filter),
                ..self
            };
        }
        WishesNote {
            has_wildcard: self.has_wildcard || asks_by_wildcard(filter.filter),
            subscription_identifier: self.subscription_identifier,
            has_share: self.has_share || is_share(filter.filter),
            has_misnamed_share: self.has_misnamed_share || is_misnamed(filter.filter),
            has_no_local_share: self.has_no_local_share || is_shared_no_local(filter),
        }
    }
}
