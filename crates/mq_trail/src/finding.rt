//! What faults conflict with, once a log was read again.
ghost use Rattle.std.specs.Prelude.{◌≡◌, true, List, Option, Some, is_some};
ghost use Rattle.mq_rules.specs.declared.role.Tested.{Tested as TheTested};
ghost use Rattle.mq_rules.specs.declared.fate.Fate.{Fate as TheFate};
ghost use Rattle.mq_rules.specs.declared.note.Seen.{Seen};
ghost use Rattle.mq_rules.specs.FaultKeys.{fault_at};
ghost use Rattle.mq_rules.specs.Statements.{fails};
ghost use Rattle.mq_evidence.specs.Evidence.{evidence};
ghost use Rattle.mq_evidence.specs.Trailing.{is_found};
ghost use Rattle.mq_rules.specs.Faults.{decided};
ghost use Rattle.mq_evidence.specs.ConnectionTrails.{is_on_connection as on_connection};
ghost use Rattle.mq_trail.specs.Sources.{is_silent as silent};

use crate::introducing::Introducing;
use crate::reviewing::{Reviewing, Wanted};
use mq_fates::Early;
use mq_rules::{Both, Evidence, Fault, FaultKey, Role, Rule, Watch};

/// What a fault conflicts with, if it is one that was to be explained, of a statement whose
/// evidence is found on the way.
pub fn session_evidence<K: Wanted>(
    reviewing: &Early<Reviewing<K>>,
    key: FaultKey,
) -> Option<Evidence>
    ensures { (tested : TheTested) (taken : Option TheFate) (past : List Seen) → ⟦<Early<Reviewing<K>> as Watch>⟧.agrees reviewing.now tested taken past → is_found key.rule ≡ true → is_some (fault_at K.wanted key.position key.rule) ≡ true → fails tested past key.position key.rule ≡ true
        → result ≡ Some (evidence tested past key.position key.rule) }
{
    reviewing.watcher().explaining.findings().get(key)
}

/// What a fault conflicts with, if it is one that was to be explained, of a statement on
/// connections whose evidence is found on the way.
pub fn connection_evidence<K: Wanted>(
    introducing: &Introducing<K>,
    key: FaultKey,
) -> Option<Evidence>
    ensures { (tested : TheTested) (taken : Option TheFate) (past : List Seen) → ⟦<Introducing<K> as Watch>⟧.agrees introducing.now tested taken past → on_connection tested.role key.rule ≡ true → is_some (fault_at K.wanted key.position key.rule) ≡ true → fails tested past key.position key.rule ≡ true
        → result ≡ Some (evidence tested past key.position key.rule) }
{
    introducing.explaining.findings().get(key)
}

// Whether the evidence of a statement is found by the past of a connection, for an end in this
// role.
fn is_on_connection(role: Role, rule: Rule) -> bool
    ensures { result ≡ on_connection role rule }
{
    match role {
        Role::Client => matches!(
            rule,
            Rule::C03
                | Rule::C11
                | Rule::C13
                | Rule::C14
                | Rule::C15
                | Rule::C16
                | Rule::C17
                | Rule::C20
                | Rule::C23
                | Rule::F01
                | Rule::F02
                | Rule::F03
                | Rule::F04
                | Rule::A01
                | Rule::A02
                | Rule::A03
                | Rule::K01
        ),
        Role::Server => matches!(
            rule,
            Rule::C06
                | Rule::C07
                | Rule::C08
                | Rule::C10
                | Rule::C11
                | Rule::C12
                | Rule::C14
                | Rule::C15
                | Rule::C16
                | Rule::C21
                | Rule::C22
                | Rule::C23
                | Rule::F05
                | Rule::F06
                | Rule::A02
                | Rule::A03
                | Rule::K02
        ),
    }
}

// Whether it is found by the past of a session. Each family has an arm of its own.
fn is_in_session(rule: Rule) -> bool
    ensures { result ≡ is_found rule }
{
    match rule {
        Rule::S01 | Rule::S02 | Rule::S03 | Rule::S04 | Rule::S05 | Rule::S07 => true,
        Rule::E1A
        | Rule::E1O
        | Rule::E2A
        | Rule::E2O
        | Rule::E3A
        | Rule::E3O
        | Rule::E4A
        | Rule::E5A
        | Rule::E6A
        | Rule::E7R
        | Rule::L1
        | Rule::L2
        | Rule::L3 => true,
        Rule::B01
        | Rule::B02
        | Rule::B03
        | Rule::B04
        | Rule::B05
        | Rule::B06
        | Rule::B07
        | Rule::B09
        | Rule::P01
        | Rule::P02
        | Rule::R01
        | Rule::R02 => true,
        _ => false,
    }
}

// Whether an answer is missing, or a connection isn't closed, where a REST shows that.
fn is_silent(rule: Rule) -> bool
    ensures { result ≡ silent rule }
{
    matches!(
        rule,
        Rule::E1R
            | Rule::E2R
            | Rule::E3R
            | Rule::E4R
            | Rule::E5R
            | Rule::E6R
            | Rule::C24
            | Rule::D01
            | Rule::D02
            | Rule::D03
            | Rule::D05
    )
}

/// What a fault of the log that was read again conflicts with, for an end in this role, if it is
/// one that was to be explained.
pub fn evidence_of<K: Wanted>(
    reading: &Both<Introducing<K>, Early<Reviewing<K>>>,
    role: Role,
    key: FaultKey,
    fault: Fault,
) -> Evidence
    ensures { (tested : TheTested) (taken : Option TheFate) (past : List Seen) → role ≡ tested.role → ⟦<Both<Introducing<K>, Early<Reviewing<K>>> as Watch>⟧.agrees reading.now tested taken past
        → fault_at K.wanted key.position key.rule ≡ Some fault → fails tested past key.position key.rule ≡ true → decided tested past key.position key.rule ≡ Some fault.decided
        → result ≡ evidence tested past key.position key.rule }
{
    if is_on_connection(role, key.rule) {
        return connection_evidence(&reading.a, key).unwrap_or(Evidence::nothing());
    }
    if is_in_session(key.rule) {
        return session_evidence(&reading.b, key).unwrap_or(Evidence::nothing());
    }
    if is_silent(key.rule) {
        return Evidence::of(Some(fault.decided));
    }
    if key.rule == Rule::S06 {
        return Evidence::of(reading.a.rests.connack(fault.decided));
    }
    Evidence::nothing()
}
