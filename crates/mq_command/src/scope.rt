//! Which statements a command line asks for.
ghost use Rattle.std.specs.Prelude.{◌≡◌};
ghost use Rattle.mq_command.specs.CommandLine.{has_further};

/// The statements that are asked for where there is no list of them.
#[derive(Clone, Copy, Debug, PartialEq, Eq)]
pub enum Scope {
    /// Those that are judged without being asked for: all but the further ones.
    Usual,
    /// Those and the further ones that need no times.
    All,
    /// All, those on times too.
    Timed,
}

impl Scope {
    /// Whether further statements are asked for.
    pub fn has_further(self) -> bool
        ensures { result ≡ has_further self }
    {
        match self {
            Scope::Usual => false,
            Scope::All | Scope::Timed => true,
        }
    }
}
