//! What a fault conflicts with.
ghost use Rattle.std.specs.Prelude.{◌≡◌, None};
ghost use Rattle.mq_rules.specs.declared.evidence.Numbers.TheVariants.{Nothing};

/// At most two numbers, which a statement compares: first what is, then what is allowed.
#[derive(Clone, Copy, Debug, PartialEq, Eq)]
pub enum Numbers {
    /// No number.
    Nothing,
    /// One, where what is allowed isn't a number.
    One(u64),
    /// Two.
    Two(u64, u64),
}

/// What a fault conflicts with: the event because of which its position is at fault, and the
/// numbers that its statement compares.
#[derive(Clone, Copy, Debug, PartialEq, Eq)]
pub struct Evidence {
    /// The position of the event; `None` if no event is to blame.
    pub because: Option<u32>,
    /// The numbers, if it is numbers that are compared.
    pub numbers: Numbers,
}

impl Evidence {
    /// No event is to blame.
    pub fn nothing() -> Self
        ensures { result ≡ record { because = None; numbers = Nothing } }
    {
        Evidence::of(None)
    }

    /// This event, if there is one.
    pub fn of(because: Option<u32>) -> Self
        ensures { result ≡ record { because = because; numbers = Nothing } }
    {
        Evidence {
            because,
            numbers: Numbers::Nothing,
        }
    }
}
