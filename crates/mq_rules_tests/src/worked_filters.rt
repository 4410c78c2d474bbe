//! What the filters of a SUBSCRIBE ask for, computed from the definitions.
ghost use Rattle.std.specs.Prelude.{◌≡◌, true, false, codes};
ghost use Rattle.mq_rules.specs.Wishes.{asks_by_wildcard, is_misnamed, is_no_local, is_share};

/// What one filter of a SUBSCRIBE asks for.
pub fn filters_that_are_asked_for()
    ensures shares { is_share (codes "$share/g/a") ≡ true }
    ensures word_alone { is_share (codes "$share") ≡ false }
    ensures unnamed_share { is_misnamed (codes "$share//a") ≡ true }
    ensures wild_name { is_misnamed (codes "$share/+/a") ≡ true }
    ensures no_slash { is_misnamed (codes "$share/g") ≡ true }
    ensures no_filter { is_misnamed (codes "$share/g/") ≡ true }
    ensures named { is_misnamed (codes "$share/g/a") ≡ false }
    ensures only_slash { is_misnamed (codes "$share/g//") ≡ false }
    ensures own { is_misnamed (codes "+/a") ≡ false }
    ensures wildcard { asks_by_wildcard (codes "a/+") ≡ true }
    ensures wildcard_shared { asks_by_wildcard (codes "$share/g/#") ≡ true }
    ensures wildcard_as_name { asks_by_wildcard (codes "$share/+/a") ≡ false }
    ensures no_wildcard { asks_by_wildcard (codes "a/b") ≡ false }
    ensures no_local { is_no_local 5 ≡ true }
    ensures local { is_no_local 3 ≡ false }
{}
