//! The statements that a citation names.
ghost use Rattle.std.specs.Prelude.{◌≡◌, [], IfOk, OnOk, fold, string_bytes};
ghost use Rattle.mq_explain.specs.Citing.{cited_text, is_among, is_citation_of, is_cited_by, is_separator, with_cited, with_explanation};

use crate::explanations::explanation;
use mq_rules::{Role, Rule};
use std::alloc::{AllocError, Global};

/// The explanations of all statements with this citation, in the order of reports and with an empty
/// line between two. It is empty if no statement has the citation.
///
/// The word is a citation as reports have it, such as `MQTT-4.4.0-1`, in capital or small letters;
/// or several, with commas or semicolons between them, each of which a statement has to have, for
/// either end.
#[tactic(auto, unfolding(crate::specs::Citing::cited_text))]
pub fn explanations_cited(alloc: Global, word: &str) -> Result<String, AllocError>
    ensures { IfOk result (λ text. string_bytes text ≡ cited_text word.now) }
{
    explanations_among(alloc, Rule::all(), word)
}

// Those of these statements.
fn explanations_among(alloc: Global, rules: &[Rule], word: &str) -> Result<String, AllocError>
    ensures { IfOk result (λ text. string_bytes text ≡ fold (with_cited word.now) [] rules.now) }
{
    let mut text = String::new(alloc);
    for rule in rules {
        add_cited(&mut text, *rule, word)?;
    }
    Ok(text)
}

// Appends the explanation of a statement, if the word cites it.
fn add_cited(text: &mut String, rule: Rule, word: &str) -> Result<(), AllocError>
    ensures { OnOk result (string_bytes text.new ≡ with_cited word.now (string_bytes text.old) rule) }
{
    if is_cited_by(rule, word) {
        add_explanation(text, rule)
    } else {
        Ok(())
    }
}

// Appends the explanation of a statement, after an empty line if others precede it.
fn add_explanation(text: &mut String, rule: Rule) -> Result<(), AllocError>
    ensures { OnOk result (string_bytes text.new ≡ with_explanation (string_bytes text.old) rule) }
{
    if text.is_empty() {
        return text.push_str(explanation(rule));
    }
    text.push_str("\n")?;
    text.push_str(explanation(rule))
}

// Whether each citation in the word is one of the statement's.
fn is_cited_by(rule: Rule, word: &str) -> bool
    ensures { result ≡ is_cited_by word.now rule }
{
    word.as_bytes()
        .split(|byte| is_separator(*byte))
        .all(|one| is_citation_of(rule, one))
}

// Whether this is a citation of the statement, for one of the ends.
fn is_citation_of(rule: Rule, one: &[u8]) -> bool
    ensures { result ≡ is_citation_of rule one.now }
{
    !one.is_empty()
        && (is_among(one, rule.citation(Role::Client))
            || is_among(one, rule.citation(Role::Server)))
}

// Whether this is one of these citations, in capitals or not.
fn is_among(one: &[u8], citations: &str) -> bool
    ensures { result ≡ is_among one.now citations.now }
{
    citations
        .as_bytes()
        .split(|byte| is_separator(*byte))
        .any(|citation| citation.eq_ignore_ascii_case(one))
}

// Whether this byte is between two citations.
fn is_separator(byte: u8) -> bool
    ensures { result ≡ is_separator byte }
{
    byte == b',' || byte == b';'
}
