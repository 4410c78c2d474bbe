//! The Reason Codes of a SUBACK or UNSUBACK.

ghost use Rattle.std.specs.Prelude.{◌≡◌, ◌<◌, ◌^◌, length};
ghost use Rattle.std.specs.Iterator.{YieldsFirstBy, item_count};

use std::marker::Model;

/// The Reason Codes of a SUBACK or UNSUBACK, one for each filter (MQTT 5.0, sections 3.9.3 and
/// 3.11.3). A contract sees them as a list of bytes.
#[derive(Debug, Drop)]
pub struct Codes<'a> {
    bytes: &'a [u8],
}

impl<'a> Model for Codes<'a> {
    ghost use Rattle.std.specs.Prelude.{ℕ, List};

    ghost Value = { List ℕ };

    ghost view = { λ c. c.bytes.now };
}

impl<'a> Codes<'a> {
    /// These bytes as Reason Codes, whichever they are.
    pub fn of(bytes: &'a [u8]) -> Codes<'a>
        ensures { result ≡ bytes.entry.now }
    {
        Codes { bytes }
    }

    /// The Reason Codes, each of them a byte, in order.
    pub fn as_bytes(&self) -> &'a [u8]
        ensures { result.now ≡ self.now }
    {
        self.bytes
    }

    /// The Reason Codes, in order.
    pub fn iter(&self) -> CodesIter<'a>
        ensures items { result ≡ self.now }
        ensures bound { length result < 2 ^ 63 }
    {
        CodesIter { rest: self.bytes }
    }
}

/// The Reason Codes of a SUBACK or UNSUBACK, in order.
#[derive(Debug, Drop)]
pub struct CodesIter<'a> {
    rest: &'a [u8],
}

impl<'a> Model for CodesIter<'a> {
    ghost use Rattle.std.specs.Prelude.{ℕ, List};

    ghost Value = { List ℕ };

    ghost view = { λ s. s.rest.now };
}

impl<'a> Iterator for CodesIter<'a> {
    type Item = u8;

    ghost next_gives = { YieldsFirstBy (λ code. code) (λ s. s) };

    ghost remaining = { item_count (λ s. s) };

    fn next(&mut self) -> Option<u8> {
        match *self.rest {
            [code, ref rest @ ..] => {
                self.rest = rest;
                Some(code)
            }
            [] => None,
        }
    }
}
