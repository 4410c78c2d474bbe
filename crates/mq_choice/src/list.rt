//! Reading a list of statements.
ghost use Rattle.std.specs.Prelude.{◌≡◌, ◌&&◌, ◌<◌, ◌≤◌, ℕ, false, not, length, option_map, slice_index_or, take};
ghost use Rattle.std.specs.List.{list_any};
ghost use Rattle.mq_rules.specs.Rules.{all_rules, is_further, is_on_times};
ghost use Rattle.mq_rules.specs.declared.rule.Rule.{Rule as TheRule};
ghost use Rattle.mq_rules.specs.declared.rule.Rule.TheVariants.{W01};
ghost use Rattle.mq_choice.specs.Choices.{is_flagged as flagged};
ghost use Rattle.mq_choice.specs.Lists.{after_word, chosen_by, has_hyphen, is_known, name_in, names, unknown_in};

use mq_rules::Rule;

/// Why a list of statements is no choice.
#[derive(Clone, Copy, Debug)]
pub enum Unchosen<'a> {
    /// The word names nothing: no statement, no family, none of `default`, `all` and `times`.
    Unknown(&'a str),
    /// No statement is left.
    Empty,
}

/// The first word of the list that names no statement.
pub fn unknown_in(list: &str) -> Option<&str>
    ensures { option_map (λ word. word.now) result ≡ unknown_in list.now }
{
    list.split(',').find(|word| !is_known(word))
}

/// For each statement whether the list chooses it, by its number.
pub fn flags_of(list: &str) -> [bool; 128]
    ensures { (rule : TheRule) → flagged result rule ≡ chosen_by list.now rule }
{
    flags_among(list, Rule::all())
}

// For each of these statements whether the list chooses it, by its place among them.
fn flags_among(list: &str, rules: &[Rule]) -> [bool; 128]
    requires { length rules.now ≤ 128 }
    ensures { (i : ℕ) → i < length rules.now → slice_index_or result i false ≡ chosen_by list.now (slice_index_or rules.now i W01) }
{
    let mut flags = [false; 128];
    for (number, rule) in rules.iter().enumerate() {
        flags[number] = is_chosen(list, *rule);
    }
    flags
}

/// Whether the flag of a statement is set.
pub fn is_flagged(flags: &[bool; 128], rule: Rule) -> bool
    ensures { result ≡ flagged flags.now rule }
{
    flags[rule as usize]
}

/// Whether the flag of any statement is set.
pub fn has_any(flags: &[bool; 128]) -> bool
    ensures { result ≡ list_any (flagged flags.now) all_rules }
{
    Rule::all().iter().any(|rule| is_flagged(flags, *rule))
}

/// Whether the flag of any further statement is set that needs no times.
pub fn has_any_on_request(flags: &[bool; 128]) -> bool
    ensures { result ≡ list_any (λ rule. (is_further rule && not (is_on_times rule)) && flagged flags.now rule) all_rules }
{
    Rule::all().iter().any(|rule| (rule.is_further() && !rule.is_on_times())
        && is_flagged(flags, *rule))
}

/// Whether the flag of any statement on times is set.
pub fn has_any_on_times(flags: &[bool; 128]) -> bool
    ensures { result ≡ list_any (λ rule. is_on_times rule && flagged flags.now rule) all_rules }
{
    Rule::all()
        .iter()
        .any(|rule| rule.is_on_times() && is_flagged(flags, *rule))
}

// Whether the list chooses a statement.
fn is_chosen(list: &str, rule: Rule) -> bool
    ensures { result ≡ chosen_by list.now rule }
{
    list.split(',').fold(
        has_hyphen(list) && !rule.is_further(),
        |chosen, word| is_chosen_after(rule, chosen, word),
    )
}

// Whether a statement is chosen after one more word.
fn is_chosen_after(rule: Rule, chosen: bool, word: &str) -> bool
    ensures { result ≡ after_word rule chosen word.now }
{
    if stands_for(name_in(word), rule) {
        !has_hyphen(word)
    } else {
        chosen
    }
}

// Whether a text begins with a hyphen.
fn has_hyphen(text: &str) -> bool
    ensures { result ≡ has_hyphen text.now }
{
    match text.as_bytes() {
        [first, ..] => *first == b'-',
        [] => false,
    }
}

// What a word names, without its hyphen.
fn name_in(word: &str) -> &[u8]
    ensures { result.now ≡ name_in word.now }
{
    match word.as_bytes() {
        [b'-', name @ ..] => name,
        name => name,
    }
}

// Whether a word names a statement.
fn is_known(word: &str) -> bool
    ensures { result ≡ is_known word.now }
{
    let name = name_in(word);
    Rule::all().iter().any(|rule| stands_for(name, *rule))
}

// Whether a name stands for a statement.
fn stands_for(name: &[u8], rule: Rule) -> bool
    ensures { result ≡ names name.now rule }
{
    let code = rule.code().as_bytes();
    name == code
        || (name == family_in(code)
            || (name == b"times".as_slice()
                || ((name == b"all".as_slice() && !rule.is_on_times())
                    || (name == b"default".as_slice() && !rule.is_further()))))
}

// The letter that the code of each statement of a family begins with.
fn family_in(code: &[u8]) -> &[u8]
    ensures { result.now ≡ take 1 code.now }
{
    match code {
        [_, ..] => &code[..1],
        [] => code,
    }
}
