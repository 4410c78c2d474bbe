ghost use Rattle.std.specs.Prelude.{◌≡◌, ◌==◌, Some, None, MatchResult};
ghost use Rattle.std.specs.List.{list_any};
ghost use Rattle.mq_topic.specs.Levels.{filter_fault, level_fault};

/// What is wrong with a Topic Filter (MQTT 5.0, 4.7.1).
#[derive(Clone, Copy, Debug, PartialEq, Eq)]
pub enum FilterFault {
    /// The filter is empty (MQTT 5.0, 4.7.3).
    Empty = 1,
    /// A level `#` isn't the last one (MQTT 5.0, 4.7.1.2).
    HashNotLast = 2,
    /// A `#` shares its level with another character (MQTT 5.0, 4.7.1.2).
    HashNotAlone = 3,
    /// A `+` shares its level with another character (MQTT 5.0, 4.7.1.3).
    PlusNotAlone = 4,
}

// Whether a wildcard is in the level, alone or with other characters (MQTT 5.0, 4.7.1).
fn has_byte(level: &str, wildcard: u8) -> bool
    ensures { result ≡ list_any (λ b. b == wildcard) level.now }
{
    level.bytes().any(|byte| byte == wildcard)
}

// Checks one level of a filter.
fn check_level(level: &str, is_last: bool) -> Result<(), FilterFault>
    ensures { MatchResult result (λ _. level_fault level.now is_last ≡ None) (λ fault. level_fault level.now is_last ≡ Some fault) }
{
    let is_alone = level.len() == 1;
    if has_byte(level, b'#') {
        if !is_alone {
            return Err(FilterFault::HashNotAlone);
        }
        if !is_last {
            return Err(FilterFault::HashNotLast);
        }
    }
    if has_byte(level, b'+') && !is_alone {
        return Err(FilterFault::PlusNotAlone);
    }
    Ok(())
}

/// Checks a Topic Filter (MQTT 5.0, 4.7.1 and 4.7.3).
///
/// Levels are separated by `/`, and empty levels count. The first invalid level from the left
/// decides; within a level a `#` that isn't alone comes first, then one that isn't last, then a `+`
/// that isn't alone.
///
/// # Errors
///
/// The [`FilterFault`] of an invalid filter.
///
/// # Examples
///
/// ```
/// assert_eq!(rt; check_filter("sport/tennis/#"), Ok(()));
/// assert_eq!(rt;
///     check_filter("sport/tennis#"),
///     Err(FilterFault::HashNotAlone)
/// );
/// ```
pub fn check_filter(filter: &str) -> Result<(), FilterFault>
    ensures { MatchResult result (λ _. filter_fault filter.now ≡ None) (λ fault. filter_fault filter.now ≡ Some fault) }
{
    if filter.is_empty() {
        return Err(FilterFault::Empty);
    }
    let mut rest = filter;
    while let Some((level, others)) = rest.split_once('/') {
        check_level(level, false)?;
        rest = others;
    }
    check_level(rest, true)
}
