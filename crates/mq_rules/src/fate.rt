//! What becomes of a network connection.
ghost use Rattle.std.specs.Prelude.{◌≡◌, Some};
ghost use Rattle.mq_rules.specs.Connections as connections;

/// What becomes of a network connection (MQTT 5.0, section 3.2.2), and whether the log tells which
/// session it has.
#[derive(Clone, Copy, Debug, PartialEq, Eq)]
pub enum Fate {
    /// The server refused it, or it was closed without a CONNACK.
    Void,
    /// The same, and what became of the session can't be told by the log.
    Adrift,
    /// The server accepted it, and began a session.
    New,
    /// The same, though the client had asked for the session that it had: what it sent before the
    /// CONNACK may belong to that one.
    Forgotten,
    /// The server accepted it, and resumed the session that it had.
    Resumed,
    /// The same, though the client hadn't asked for it, or had none: before the CONNACK it couldn't
    /// know.
    Unasked,
    /// The server accepted it, and resumed a session, but the log can't tell which.
    Unknown,
}

impl Fate {
    /// Whether the server accepted the connection, with a session that is known.
    #[inline(always)]
    pub fn accepts(self) -> bool
        ensures { result ≡ connections.accepts self }
    {
        matches!(
            self,
            Fate::New | Fate::Forgotten | Fate::Resumed | Fate::Unasked
        )
    }

    /// Whether the server resumed a session that is known.
    #[inline(always)]
    pub fn resumes(self) -> bool
        ensures { result ≡ connections.resumes self }
    {
        matches!(self, Fate::Resumed | Fate::Unasked)
    }

    /// Whether the server began a session.
    #[inline(always)]
    pub fn begins(self) -> bool
        ensures { result ≡ connections.begins (Some self) }
    {
        matches!(self, Fate::New | Fate::Forgotten)
    }

    /// Whether a session was resumed that the client hadn't asked for, or didn't have.
    #[inline(always)]
    pub fn is_unasked(self) -> bool
        ensures { result ≡ connections.is_unasked self }
    {
        matches!(self, Fate::Unasked)
    }

    /// Whether the client couldn't know before the CONNACK which session it would have.
    #[inline(always)]
    pub fn surprises(self) -> bool
        ensures { result ≡ connections.surprises self }
    {
        matches!(self, Fate::Unasked | Fate::Forgotten)
    }

    /// Whether the log can't tell which session it is.
    #[inline(always)]
    pub fn is_untold(self) -> bool
        ensures { result ≡ connections.is_untold self }
    {
        matches!(self, Fate::Adrift | Fate::Unknown)
    }

    /// Whether the server didn't accept the connection.
    #[inline(always)]
    pub fn is_void(self) -> bool
        ensures { result ≡ connections.is_void self }
    {
        matches!(self, Fate::Void | Fate::Adrift)
    }
}
