//! For how long a connection may be silent by its Keep Alive (MQTT 5.0, section 3.1.2.10), and what
//! may take its time there.
ghost use Rattle.std.specs.Prelude.{◌≡◌};
ghost use Rattle.mq_rules.specs.Notes.{is_large};
ghost use Rattle.mq_rules.specs.KeepAlive.{client_limit, server_limit};

/// The most bytes of a packet that isn't large.
const LARGEST: u64 = 65_536;

/// A second, in microseconds.
const SECOND: u64 = 1_000_000;

/// For how long a client may be silent, in microseconds, by its Keep Alive in seconds: 1.25 times
/// that, and a second, since timers are late.
#[inline]
pub fn client_limit(seconds: u16) -> u64
    ensures { result ≡ client_limit seconds }
{
    u64::from(seconds) * 1_250_000 + SECOND
}

/// For how long a server may leave it at that: one and a half times the Keep Alive, and half of it
/// or 5 seconds, whichever is longer, since servers look now and then.
#[inline]
pub fn server_limit(seconds: u16) -> u64
    ensures { result ≡ server_limit seconds }
{
    let half = u64::from(seconds) * 500_000;
    u64::from(seconds) * 1_500_000 + half.max(5 * SECOND)
}

/// Whether a packet of this many bytes is so large that it may have taken its time.
#[inline]
pub fn is_large(size: u64) -> bool
    ensures { result ≡ is_large size }
{
    size > LARGEST
}
