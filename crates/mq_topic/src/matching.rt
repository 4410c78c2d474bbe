//! Which Topic Names a Topic Filter matches (MQTT 5.0, 4.7).
ghost use Rattle.std.specs.Prelude.{◌≡◌, ◌∷◌, [], ◌||◌, is_none};
ghost use Rattle.std.specs.Str.{bytes_eq};
ghost use Rattle.mq_topic.specs.Levels.{filter_fault, levels_of};
ghost use Rattle.mq_topic.specs.Matching.{begins_dollar, begins_wild, is_plus, levels_match, matches as is_match};

use crate::filter::check_filter;
use crate::name::check_name;

/// Whether a Topic Filter matches a Topic Name (MQTT 5.0, 4.7).
///
/// `+` matches one level, and `#` matches all remaining levels, also none. A filter that begins
/// with one of them matches no name that begins with `$`. An invalid filter or name, or an empty
/// name, has no match.
///
/// # Examples
///
/// ```
/// assert!(rt; matches("sport/+/player1", "sport/tennis/player1"));
/// assert!(rt; matches("sport/#", "sport"));
/// assert!(rt; !matches("#", "$SYS/monitor"));
/// ```
#[tactic(auto, unfolding(crate::specs::Matching::matches))]
pub fn matches(filter: &str, name: &str) -> bool
    ensures { result ≡ is_match filter.now name.now }
{
    is_valid_filter(filter)
        && check_name(name)
        && !name.is_empty()
        && all_levels_match(filter, name)
        && !(begins_with_wildcard(filter) && begins_with_dollar(name))
}

// Whether it isn't empty, and its wildcards are where they may be (MQTT 5.0, 4.7.1 and 4.7.3).
fn is_valid_filter(filter: &str) -> bool
    ensures { result ≡ is_none (filter_fault filter.now) }
{
    check_filter(filter).is_ok()
}

// Whether a filter begins with `#` or `+`, so that no name with `$` in front matches (MQTT 5.0,
// 4.7.2).
fn begins_with_wildcard(filter: &str) -> bool
    ensures { result ≡ begins_wild filter.now }
{
    matches!(filter.as_bytes().first(), Some(b'#' | b'+'))
}

// Whether a name begins with `$`, as a server's own names may (MQTT 5.0, 4.7.2).
fn begins_with_dollar(name: &str) -> bool
    ensures { result ≡ begins_dollar name.now }
{
    matches!(name.as_bytes().first(), Some(b'$'))
}

// Whether the levels of a filter match those of a name.
fn all_levels_match(filter: &str, name: &str) -> bool
    ensures { result ≡ levels_match (levels_of filter.now) (levels_of name.now) }
{
    let mut filters = filter;
    let mut names = name;
    while let Some((level, next_filters)) = filters.split_once('/') {
        let Some((name_level, next_names)) = names.split_once('/') else {
            return level_matches(level, names) && next_filters == "#";
        };
        if !level_matches(level, name_level) {
            return false;
        }
        filters = next_filters;
        names = next_names;
    }
    last_level_matches(filters, names)
}

// Whether the last level of a filter matches all levels of a name.
fn last_level_matches(level: &str, name: &str) -> bool
    ensures { result ≡ levels_match (level.now ∷ []) (levels_of name.now) }
{
    match name.split_once('/') {
        Some(_) => level == "#",
        None => level == "#" || level_matches(level, name),
    }
}

// Whether a level of a filter matches one level of a name: it is `+`, or the same text.
fn level_matches(level: &str, name_level: &str) -> bool
    ensures { result ≡ (is_plus level.now || bytes_eq level.now name_level.now) }
{
    level == "+" || level == name_level
}
