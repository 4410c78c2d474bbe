//! How an event lies in the stretches that evidence looks back over.

/// How the next event lies in its session and on its connection.
#[derive(Clone, Copy)]
pub struct Turn {
    /// Its position.
    pub position: u32,
    /// Whether it is the OPEN of an accepted connection on which a session begins anew.
    pub begins: bool,
    /// Whether it belongs to a session.
    pub inside: bool,
    /// Whether it is an OPEN.
    pub opens: bool,
}
