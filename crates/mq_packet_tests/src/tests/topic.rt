use mq_topic::*;
use std::alloc::Global;

// Texts, and why each is no Topic Filter, if it isn't.
const FILTERS: [(&str, Result<(), FilterFault>); 20] = [
    ("a/#", Ok(())),
    ("+/b", Ok(())),
    ("#", Ok(())),
    ("+", Ok(())),
    ("/", Ok(())),
    ("a//b", Ok(())),
    ("+/+/#", Ok(())),
    ("$share/g/t", Ok(())),
    ("a/", Ok(())),
    ("", Err(FilterFault::Empty)),
    ("#/a", Err(FilterFault::HashNotLast)),
    ("#/", Err(FilterFault::HashNotLast)),
    ("a#", Err(FilterFault::HashNotAlone)),
    ("a#/b", Err(FilterFault::HashNotAlone)),
    ("+#", Err(FilterFault::HashNotAlone)),
    ("##", Err(FilterFault::HashNotAlone)),
    ("a+", Err(FilterFault::PlusNotAlone)),
    ("++", Err(FilterFault::PlusNotAlone)),
    ("a+/b#", Err(FilterFault::PlusNotAlone)),
    ("a/#/b#", Err(FilterFault::HashNotLast)),
];

#[test]
fn filters(rt: HostRuntime) {
    for (filter, wanted) in &FILTERS {
        assert!(rt; check_filter(filter) == *wanted, "at {filter}");
    }
}

#[test]
fn faults_have_their_numbers(rt: HostRuntime) {
    assert_eq!(rt; FilterFault::Empty as u8, 1);
    assert_eq!(rt; FilterFault::HashNotLast as u8, 2);
    assert_eq!(rt; FilterFault::HashNotAlone as u8, 3);
    assert_eq!(rt; FilterFault::PlusNotAlone as u8, 4);
}

// Texts, and whether each may be a Topic Name.
const NAMES: [(&str, bool); 10] = [
    ("", true),
    ("a", true),
    ("/", true),
    ("a/b", true),
    ("$SYS/x", true),
    ("#", false),
    ("+", false),
    ("a/#", false),
    ("a+b", false),
    ("x#", false),
];

#[test]
fn names(rt: HostRuntime) {
    for (name, is_good) in &NAMES {
        assert!(rt; check_name(name) == *is_good, "at {name}");
    }
}

/// A filter, a name, and whether the filter matches the name.
type Pair = (&'static str, &'static str, bool);

const BY_LEVELS: [Pair; 36] = [
    ("a", "a", true),
    ("a", "b", false),
    ("a", "A", false),
    ("a", "ab", false),
    ("ab", "a", false),
    ("a/b", "a/b", true),
    ("a/b", "a", false),
    ("a", "a/b", false),
    ("a/b/c", "a/b/d", false),
    ("/a", "a", false),
    ("/a", "/a", true),
    ("a", "/a", false),
    ("a/", "a", false),
    ("a", "a/", false),
    ("a/", "a/", true),
    ("/", "/", true),
    ("/", "//", false),
    ("a//b", "a/b", false),
    ("a//b", "a//b", true),
    ("+", "a", true),
    ("+", "/a", false),
    ("+", "a/b", false),
    ("+/+", "/a", true),
    ("/+", "/a", true),
    ("/+", "/", true),
    ("+/", "/", true),
    ("a/+", "a", false),
    ("a/+", "a/", true),
    ("a/+", "a/b/c", false),
    ("a/+/c", "a/b/c", true),
    ("a/+/c", "a//c", true),
    ("+/b", "a/b", true),
    ("+/b", "a/c", false),
    ("#", "a", true),
    ("#", "/", true),
    ("#", "a/b/c", true),
];

const BY_WILDCARDS: [Pair; 36] = [
    ("a/#", "a", true),
    ("a/#", "a/", true),
    ("a/#", "a/b/c", true),
    ("a/#", "b", false),
    ("a/#", "ab", false),
    ("a/#", "/a", false),
    ("/#", "/a/b", true),
    ("/#", "a", false),
    ("a/b/#", "a", false),
    ("+/#", "a", true),
    ("+/#", "/", true),
    ("+/b/#", "a/b", true),
    ("+/b/#", "a/c", false),
    ("a/+/#", "a", false),
    ("#", "$SYS/x", false),
    ("+/x", "$SYS/x", false),
    ("+", "$SYS", false),
    ("+/#", "$SYS", false),
    ("$SYS/#", "$SYS/x", true),
    ("$SYS/#", "$SYS", true),
    ("$SYS/+", "$SYS/x", true),
    ("$SYS/x", "$SYS/x", true),
    ("/+", "/$SYS", true),
    ("a/#", "a/$SYS", true),
    ("$share/g/t", "t", false),
    ("$share/g/t", "$share/g/t", true),
    ("$share/g/+", "t", false),
    ("", "", false),
    ("", "a", false),
    ("#", "", false),
    ("+", "", false),
    ("a#", "a#", false),
    ("#/a", "b/a", false),
    ("a+", "a+", false),
    ("+", "+", false),
    ("a/#", "a/#", false),
];

#[test]
fn filters_match_by_levels(rt: HostRuntime) {
    for (filter, name, is_match) in &BY_LEVELS {
        assert!(rt; matches(filter, name) == *is_match, "{filter} at {name}");
    }
}

#[test]
fn wildcards_match(rt: HostRuntime) {
    for (filter, name, is_match) in &BY_WILDCARDS {
        assert!(rt; matches(filter, name) == *is_match, "{filter} at {name}");
    }
}

// Whether each alias has the newest name that is set for it, and the other ones keep theirs.
fn has_newest_names(table: &mut AliasTable) -> bool {
    table.get(1).is_none()
        && table.set(1, "a") == Ok(())
        && table.set(2, "c") == Ok(())
        && table.set(1, "b") == Ok(())
        && table.get(1) == Some("b")
        && table.get(2) == Some("c")
}

// Whether a table has no name of an alias that was set before it was cleared.
fn is_cleared(table: &mut AliasTable) -> bool {
    table.clear();
    table.get(1).is_none()
}

// Whether both hold of a new table.
fn newest_names_count(alloc: Global) -> bool {
    let mut table = AliasTable::new(alloc);
    has_newest_names(&mut table) && is_cleared(&mut table)
}

#[test]
fn newest_name_of_an_alias_counts(rt: HostRuntime) {
    assert!(rt; newest_names_count(rt.alloc()));
}
