//! The words of evidence, over what is kept.
ghost use Rattle.std.specs.Prelude.{◌≡◌, Some, is_some, unwrap_or};
ghost use Rattle.mq_rules.specs.Words.{only};
ghost use Rattle.mq_rules.specs.declared.evidence.Numbers.TheVariants as numbers_of;
ghost use Rattle.mq_evidence.specs.Evidence as evidence;

use mq_rules::{Evidence, Numbers};

/// This event, if there is one.
pub fn it(because: Option<u32>) -> Evidence
    ensures { result ≡ record { because = because; numbers = numbers_of.Nothing } }
{
    Evidence {
        because,
        numbers: Numbers::Nothing,
    }
}

/// The same, with these numbers.
pub fn it_with(because: Option<u32>, numbers: Numbers) -> Evidence
    ensures { result ≡ record { because = because; numbers = numbers } }
{
    Evidence { because, numbers }
}

/// The event, if the peer announced something.
pub fn if_announced(announced: Option<u64>, because: Option<u32>) -> Option<u32>
    ensures { result ≡ only (is_some announced) because }
{
    match announced {
        Some(_) => because,
        None => None,
    }
}

/// The number, if it is there.
pub fn one_of(a: Option<u64>) -> Numbers
    ensures { result ≡ evidence.one_of a }
{
    match a {
        Some(first) => Numbers::One(first),
        None => Numbers::Nothing,
    }
}

/// Both numbers, if they are there.
pub fn two_of(a: Option<u64>, b: Option<u64>) -> Numbers
    ensures { result ≡ evidence.two_of a b }
{
    match a {
        Some(first) => match b {
            Some(second) => Numbers::Two(first, second),
            None => Numbers::Nothing,
        },
        None => Numbers::Nothing,
    }
}

/// A number, and what the peer announced, or its default.
pub fn two_with(a: Option<u64>, announced: Option<u64>, default: u64) -> Numbers
    ensures { result ≡ evidence.two_of a (Some (unwrap_or announced default)) }
{
    match announced {
        Some(most) => two_of(a, Some(most)),
        None => two_of(a, Some(default)),
    }
}

/// A number of 16 bits as one of 64.
pub fn from_short(a: Option<u16>) -> Option<u64>
    ensures { result ≡ a }
{
    match a {
        Some(number) => Some(u64::from(number)),
        None => None,
    }
}

/// A number of 32 bits as one of 64.
pub fn from_word(a: Option<u32>) -> Option<u64>
    ensures { result ≡ a }
{
    match a {
        Some(number) => Some(u64::from(number)),
        None => None,
    }
}
