//! Words of a command line that name several logs, where one is taken.
ghost use Rattle.std.specs.Prelude.{◌≡◌, map};
ghost use Rattle.std.specs.List.{list_any};
ghost use Rattle.mq_command.specs.Operands.{has_two_operands, is_operand, names_many_logs};

use std::convert::AsStr;

/// Whether the words, of which the first is the program's name, are `check` and two logs or more.
pub fn names_many_logs<S: AsStr>(words: &[S]) -> bool
    ensures { result ≡ names_many_logs (map S.text words.now) }
{
    let [_, subcommand, rest @ ..] = words else {
        return false;
    };
    subcommand.as_str() == "check" && has_two_operands(rest)
}

// Whether at least two of the words are no options.
fn has_two_operands<S: AsStr>(words: &[S]) -> bool
    ensures { result ≡ has_two_operands (map S.text words.now) }
{
    let mut rest = words;
    while let [word, after @ ..] = rest {
        if is_operand(word.as_str()) {
            return has_operand(after);
        }
        rest = after;
    }
    false
}

// Whether one of the words is no option.
fn has_operand<S: AsStr>(words: &[S]) -> bool
    ensures { result ≡ list_any is_operand (map S.text words.now) }
{
    let mut rest = words;
    while let [word, after @ ..] = rest {
        if is_operand(word.as_str()) {
            return true;
        }
        rest = after;
    }
    false
}

// Whether a word is no option: it doesn't begin with `-`, or is `-` alone.
fn is_operand(word: &str) -> bool
    ensures { result ≡ is_operand word.now }
{
    match word.as_bytes() {
        [b'-', _, ..] => false,
        _ => true,
    }
}
