//! The identifiers that have been read.

ghost use Rattle.std.specs.Prelude.{◌≡◌, ℕ, ◌<◌, [], ◌∷◌, ◌++◌, List};
ghost use Rattle.mq_props.specs.Values.{Property};
ghost use Rattle.mq_props.specs.Allowed.{occurs_in};
ghost use Rattle.mq_props.specs.Views.{Sees};

/// Which Property Identifiers, all below 43, have been seen: a bit for each.
#[derive(Debug, Clone, Copy)]
pub struct Seen {
    bits: u64,
}

impl Seen {
    /// No identifier has been seen.
    pub const fn new() -> Seen
        ensures { Sees result [] }
    {
        Seen { bits: 0 }
    }

    /// Whether the identifier has been seen.
    #[inline(always)]
    pub fn has(self, id: u8) -> bool
        requires { id < 43 }
        ensures { (ps : List Property) → Sees self ps → result ≡ occurs_in id ps }
    {
        (self.bits >> id) & 1 == 1
    }

    /// The same, and the identifier.
    #[inline(always)]
    pub fn with(self, id: u8) -> Seen
        requires { id < 43 }
        ensures { (ps : List Property) (p : Property) → Sees self ps → p.id ≡ id → Sees result (ps ++ p ∷ []) }
    {
        Seen {
            bits: self.bits | 1 << id,
        }
    }
}
