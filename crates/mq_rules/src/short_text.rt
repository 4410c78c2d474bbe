//! Short texts, which are stored in the value itself.
ghost use Rattle.std.specs.Prelude.{◌≡◌, IsUtf8};

use std::marker::Model;
use std::{fmt, str};

/// The most bytes that a short text may have. A larger bound would make each note larger.
pub const ROOM: usize = 30;

/// A text of at most 30 bytes. A contract sees the bytes of its UTF-8 encoding.
#[derive(Drop)]
pub struct ShortText {
    bytes: [u8; 30],
    len: u8,
}

impl Model for ShortText {
    ghost use Rattle.std.specs.Prelude.{◌≡◌, ◌≤◌, List, ℕ, length, take, IsUtf8};

    ghost Value = { List ℕ };

    ghost view = { λ t. take t.len t.bytes };

    ghost invariant = { λ t. (t.len ≤ 30) × (length t.bytes ≡ 30) × ∥ IsUtf8 (take t.len t.bytes) ∥₁ };
}

// The text that the bytes encode.
#[inline(always)]
fn text_in(bytes: &[u8]) -> &str
    requires { IsUtf8 bytes.now }
    ensures { result.now ≡ bytes.now }
{
    // They are UTF-8, as is required.
    unsafe { str::from_utf8_unchecked(bytes) }
}

impl ShortText {
    ghost use Rattle.std.specs.Prelude.{◌≡◌, ◌≤◌, [], length};

    /// The empty text.
    #[inline(always)]
    pub fn empty() -> ShortText
        ensures { result ≡ [] }
    {
        ShortText {
            bytes: [0; 30],
            len: 0,
        }
    }

    /// A copy of the text.
    #[inline(always)]
    pub fn of(text: &str) -> ShortText
        requires { length text.now ≤ 30 }
        ensures { result ≡ text.now }
    {
        let mut bytes = [0; 30];
        bytes[..text.len()].copy_from_slice(text.as_bytes());
        ShortText {
            bytes,
            len: text.len() as u8,
        }
    }

    /// The text.
    #[inline]
    pub fn as_str(&self) -> &str
        ensures { result.now ≡ self.now }
    {
        text_in(&self.bytes[..self.len as usize])
    }

    /// How many bytes it has.
    #[inline(always)]
    pub fn len(&self) -> usize
        ensures { result ≡ length self.now }
    {
        self.len as usize
    }
}

impl fmt::Debug for ShortText {
    fn fmt<W: fmt::Write>(&self, f: &mut fmt::Formatter<W>) -> fmt::Result {
        fmt::Debug::fmt(&self.as_str(), f)
    }
}
