//! Counting the places of a statement.
ghost use Rattle.std.specs.Prelude.{◌≡◌, ◌+◌, ◌<◌, cond};

/// One place more, or none: there are fewer than events.
#[inline(always)]
pub fn places_after(here: bool, old: u32, position: u32) -> u32
    ensures { old < position → result ≡ cond here 1 0 + old }
{
    if here && old < position {
        return old + 1;
    }
    old
}
