//! The list of the statements.
ghost use Rattle.std.specs.Prelude.{◌≡◌, ◌++◌, IfOk, OnOk, Some, string_bytes};
ghost use Rattle.std.specs.List.{flat_map};
ghost use Rattle.mq_rules.specs.declared.rule.Rule.{Rule};
ghost use Rattle.mq_choice.specs.Choices.{in_choice};
ghost use Rattle.mq_explain.specs.Listing.{all_codes, binds_for, both_citations, bound_ends, citation_for, lists_statement, spaced_code};
ghost use Rattle.mq_explain.specs.Listing.{listed_line, role_named, statement_line, statement_lines};

use mq_choice::Choice;
use mq_rules::{Role, Rule};
use std::alloc::{AllocError, Global};

/// The lines of the chosen statements, in the order of reports: of those that bind this end, or of
/// all if none is named.
pub fn statement_list(
    alloc: Global,
    role: Option<Role>,
    choice: Choice,
) -> Result<String, AllocError>
    ensures { IfOk result (λ text. string_bytes text ≡ statement_lines (in_choice choice) role) }
{
    lines_of(alloc, Rule::all(), role, choice)
}

/// Appends the codes of all statements to the text, in the order of reports, each after a space.
#[tactic(auto, unfolding(crate::specs::Listing::all_codes))]
pub fn add_all_codes(text: &mut String) -> Result<(), AllocError>
    ensures { OnOk result (string_bytes text.new ≡ string_bytes text.old ++ all_codes) }
{
    add_codes(text, Rule::all())
}

// Appends the codes of these statements to the text, each after a space.
fn add_codes(text: &mut String, rules: &[Rule]) -> Result<(), AllocError>
    ensures { OnOk result (string_bytes text.new ≡ string_bytes text.old ++ flat_map spaced_code rules.now) }
{
    for rule in rules {
        add_code(text, *rule)?;
    }
    Ok(())
}

// Appends the code of a statement to the text, after a space.
fn add_code(text: &mut String, rule: Rule) -> Result<(), AllocError>
    ensures { OnOk result (string_bytes text.new ≡ string_bytes text.old ++ spaced_code rule) }
{
    text.push_str(" ")?;
    text.push_str(rule.code())
}

// The lines of those of these statements that are listed.
fn lines_of(
    alloc: Global,
    rules: &[Rule],
    role: Option<Role>,
    choice: Choice,
) -> Result<String, AllocError>
    ensures { IfOk result (λ text. string_bytes text ≡ flat_map (listed_line (in_choice choice) role) rules.now) }
{
    let mut text = String::new(alloc);
    for rule in rules {
        add_line(&mut text, *rule, role, choice)?;
    }
    Ok(text)
}

// Appends the line of a statement to the text, if it is listed.
fn add_line(
    text: &mut String,
    rule: Rule,
    role: Option<Role>,
    choice: Choice,
) -> Result<(), AllocError>
    ensures { OnOk result (string_bytes text.new ≡ string_bytes text.old ++ listed_line (in_choice choice) role rule) }
{
    if is_listed(rule, role, choice) {
        put_rule_line(text, rule, role)
    } else {
        Ok(())
    }
}

// Appends the line of a statement to the text.
fn put_rule_line(text: &mut String, rule: Rule, role: Option<Role>) -> Result<(), AllocError>
    ensures { OnOk result (string_bytes text.new ≡ string_bytes text.old ++ statement_line role rule) }
{
    text.push_str(rule.code())?;
    text.push_str(" ")?;
    text.push_str(bound_ends(rule))?;
    text.push_str(" ")?;
    put_citation(text, rule, role)?;
    text.push_str(" ")?;
    text.push_str(rule.sentence())?;
    text.push_str("\n")
}

// Appends the citation of a statement to the text.
fn put_citation(text: &mut String, rule: Rule, role: Option<Role>) -> Result<(), AllocError>
    ensures { OnOk result (string_bytes text.new ≡ string_bytes text.old ++ citation_for role rule) }
{
    match role {
        Some(role) => text.push_str(rule.citation(role)),
        None => put_both(
            text,
            rule.citation(Role::Client),
            rule.citation(Role::Server),
        ),
    }
}

// Appends both citations to the text, or only one if there is one, or if they are equal.
fn put_both(text: &mut String, client: &str, server: &str) -> Result<(), AllocError>
    ensures { OnOk result (string_bytes text.new ≡ string_bytes text.old ++ both_citations client.now server.now) }
{
    if client.is_empty() {
        return text.push_str(server);
    }
    if server.is_empty() {
        return text.push_str(client);
    }
    if client == server {
        return text.push_str(client);
    }
    text.push_str(client)?;
    text.push_str(";")?;
    text.push_str(server)
}

// Whether a statement is chosen, and listed for this end, or for both if none is named.
fn is_listed(rule: Rule, role: Option<Role>, choice: Choice) -> bool
    ensures { result ≡ lists_statement (in_choice choice) role rule }
{
    choice.has(rule) && binds_for(rule, role)
}

// Whether a statement binds this end, or any if none is named.
fn binds_for(rule: Rule, role: Option<Role>) -> bool
    ensures { result ≡ binds_for role rule }
{
    match role {
        Some(role) => rule.binds(role),
        None => true,
    }
}

// Whom a statement binds, as a word.
fn bound_ends(rule: Rule) -> &'static str
    ensures { result.now ≡ bound_ends rule }
{
    if !rule.binds(Role::Client) {
        return "server";
    }
    if rule.binds(Role::Server) {
        "both"
    } else {
        "client"
    }
}

/// The end that a word names, if it names one.
pub fn role_named(word: &str) -> Option<Role>
    ensures { result ≡ role_named word.now }
{
    if word == "client" {
        return Some(Role::Client);
    }
    if word == "server" {
        return Some(Role::Server);
    }
    None
}
