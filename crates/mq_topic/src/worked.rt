//! Examples of filters and names that match or don't, computed from the definition of a match
//! alone.
#![tactic(auto, unfolding(crate::specs::Matching::matches))]

ghost use Rattle.std.specs.Prelude.{◌≡◌, ◌∷◌, [], true, codes};
ghost use Rattle.mq_topic.specs.WorkedMatches.{all_match, none_matches};

/// Filters without wildcards, level by level (MQTT 5.0, 4.7.1.1 and 4.7.3).
pub fn levels_of_filters()
    ensures same { all_match ((codes "a", codes "a") ∷ (codes "a/b", codes "a/b") ∷ (codes "/a", codes "/a") ∷ (codes "a/", codes "a/") ∷ (codes "/", codes "/") ∷ (codes "a//b", codes "a//b") ∷ []) ≡ true }
    ensures other_text { none_matches ((codes "a", codes "b") ∷ (codes "a", codes "A") ∷ (codes "a", codes "ab") ∷ (codes "ab", codes "a") ∷ (codes "a/b/c", codes "a/b/d") ∷ []) ≡ true }
    ensures other_levels { none_matches ((codes "a/b", codes "a") ∷ (codes "a", codes "a/b") ∷ (codes "/a", codes "a") ∷ (codes "a", codes "/a") ∷ (codes "a/", codes "a") ∷ (codes "a", codes "a/") ∷ (codes "/", codes "//") ∷ (codes "a//b", codes "a/b") ∷ []) ≡ true }
{}

/// `+` matches one level, which may be empty (MQTT 5.0, 4.7.1.3).
pub fn single_levels()
    ensures alone { all_match ((codes "+", codes "a") ∷ (codes "+/+", codes "/a") ∷ (codes "/+", codes "/a") ∷ (codes "/+", codes "/") ∷ (codes "+/", codes "/") ∷ (codes "a/+", codes "a/") ∷ []) ≡ true }
    ensures within { all_match ((codes "a/+/c", codes "a/b/c") ∷ (codes "a/+/c", codes "a//c") ∷ (codes "+/b", codes "a/b") ∷ []) ≡ true }
    ensures not_one { none_matches ((codes "+", codes "/a") ∷ (codes "+", codes "a/b") ∷ (codes "a/+", codes "a") ∷ (codes "a/+", codes "a/b/c") ∷ (codes "+/b", codes "a/c") ∷ []) ≡ true }
{}

/// `#` matches all remaining levels, also none (MQTT 5.0, 4.7.1.2).
pub fn all_levels()
    ensures alone { all_match ((codes "#", codes "a") ∷ (codes "#", codes "/") ∷ (codes "#", codes "a/b/c") ∷ []) ≡ true }
    ensures parent { all_match ((codes "a/#", codes "a") ∷ (codes "+/#", codes "a") ∷ (codes "+/b/#", codes "a/b") ∷ (codes "$SYS/#", codes "$SYS") ∷ []) ≡ true }
    ensures below { all_match ((codes "a/#", codes "a/") ∷ (codes "a/#", codes "a/b/c") ∷ (codes "/#", codes "/a/b") ∷ (codes "+/#", codes "/") ∷ []) ≡ true }
    ensures elsewhere { none_matches ((codes "a/#", codes "b") ∷ (codes "a/#", codes "ab") ∷ (codes "a/#", codes "/a") ∷ (codes "/#", codes "a") ∷ (codes "a/b/#", codes "a") ∷ (codes "+/b/#", codes "a/c") ∷ (codes "a/+/#", codes "a") ∷ []) ≡ true }
{}

/// A filter that begins with a wildcard matches no name that begins with `$` (MQTT 5.0, 4.7.2).
pub fn dollar_names()
    ensures wild { none_matches ((codes "#", codes "$SYS/x") ∷ (codes "+/x", codes "$SYS/x") ∷ (codes "+", codes "$SYS") ∷ (codes "+/#", codes "$SYS") ∷ []) ≡ true }
    ensures spelled { all_match ((codes "$SYS/#", codes "$SYS/x") ∷ (codes "$SYS/+", codes "$SYS/x") ∷ (codes "$SYS/x", codes "$SYS/x") ∷ []) ≡ true }
    ensures later { all_match ((codes "/+", codes "/$SYS") ∷ (codes "a/#", codes "a/$SYS") ∷ (codes "#", codes "/$SYS") ∷ []) ≡ true }
{}

/// The filter of a shared subscription is matched as it is, `$share` and all (MQTT 5.0, 4.8.2).
pub fn shared_filters()
    ensures plain { all_match ((codes "$share/g/t", codes "$share/g/t") ∷ []) ≡ true }
    ensures not_taken_apart { none_matches ((codes "$share/g/t", codes "t") ∷ (codes "$share/g/+", codes "t") ∷ []) ≡ true }
{}

/// An invalid filter or name, or an empty name, has no match (MQTT 5.0, 4.7.1 and 4.7.3).
pub fn faulty_texts()
    ensures empty { none_matches ((codes "", codes "") ∷ (codes "", codes "a") ∷ (codes "#", codes "") ∷ (codes "+", codes "") ∷ []) ≡ true }
    ensures filter { none_matches ((codes "a#", codes "a#") ∷ (codes "#/a", codes "b/a") ∷ (codes "a+", codes "a+") ∷ []) ≡ true }
    ensures name { none_matches ((codes "+", codes "+") ∷ (codes "a/#", codes "a/#") ∷ (codes "#", codes "a+b") ∷ []) ≡ true }
{}
