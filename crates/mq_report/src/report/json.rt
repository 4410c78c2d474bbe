//! Reports as JSON. Each is built as a value, and written as one line without spaces.
ghost use Rattle.std.specs.Prelude.{◌≡◌, false, length, Some, IfOk, IfErr, OnOk};
ghost use Rattle.std.specs.FinMap as map;
ghost use Rattle.std.specs.Io.KnownBytes.{Appends};
ghost use Rattle.serde_json.specs.Data.{array};
ghost use Rattle.serde_json.specs.View.{view, items_view};
ghost use Rattle.serde_json.specs.Written.{compact_text, has_float};
ghost use Rattle.mq_report.specs.declared.report.Form.TheVariants.{Json};
ghost use Rattle.mq_report.specs.Report.{line, fault_data, fault_items, verdict_word, report_data, refused_data, refused_report, report_on, FailsToReport};
ghost use Rattle.mq_report.specs.Coverage.{places_data, places_items, covered_data, covered_report_on};
ghost use Rattle.mq_report.specs.Unjudged.{gap_begun, gap_data, gap_items};
ghost use Rattle.mq_report.specs.Reasons.{event_data, number_items, with_member, reasoned, reasoned_data, reasoned_items, reasoned_report_data, reasoned_report_on};

use super::coverage::Covered;
use super::line::write_bytes;
use super::reasons::{first_reason, later_reasons};
use super::unjudged::{Begun, Gap};
use super::{RunFault, Verdict};
use mq_log::{Place3, Refusal};
use mq_rules::{Evidence, Fault, FaultKey, Faults, Numbers, Role};
use serde_json::{Value, json, push, put};
use std::alloc::{AllocError, Global};
use std::io::Write;

/// Writes the report on a verdict for an end in this role as one line of JSON: how many events
/// there are, the faults, ascending by position and then by statement, and whether there are any.
/// The whole value is built in memory before anything is written.
///
/// # Errors
///
/// `Write` if a write failed: the writer returned an error, also one for an interruption, or took
/// no byte. A beginning of the report, but not all of it, was then written. `Memory` if there is no
/// memory for the value or its text. Nothing was then written.
#[tactic(auto, unfolding(crate::specs::Report::json_report))]
pub fn write_json<W: Write>(
    alloc: Global,
    verdict: &Verdict,
    role: Role,
    writer: &mut W,
) -> Result<(), RunFault>
    ensures ok { OnOk result (Appends (W.contents writer.old) (W.contents writer.new)
        (report_on Json role (map.entries verdict.now.faults) verdict.now.events)) }
    ensures err { IfErr result (FailsToReport Json (W.contents writer.old) (W.contents writer.new)
        (report_on Json role (map.entries verdict.now.faults) verdict.now.events)) }
{
    match report_value(alloc, verdict, role) {
        Ok(value) => write_value(alloc, &value, writer),
        Err(_) => Err(RunFault::Memory),
    }
}

/// Writes the report on a verdict for an end in this role as one line of JSON, as `write_json`
/// does, and with it how often each of these statements was put to the test, and these gaps, in
/// their order.
///
/// # Errors
///
/// As `write_json`.
#[tactic(auto, unfolding(crate::specs::Coverage::covered_json_report))]
pub fn write_covered_json<W: Write>(
    alloc: Global,
    verdict: &Verdict,
    role: Role,
    rows: &[Covered],
    gaps: &[Gap],
    writer: &mut W,
) -> Result<(), RunFault>
    ensures ok { OnOk result (Appends (W.contents writer.old) (W.contents writer.new)
        (covered_report_on Json role (map.entries verdict.now.faults) verdict.now.events rows.now gaps.now)) }
    ensures err { IfErr result (FailsToReport Json (W.contents writer.old) (W.contents writer.new)
        (covered_report_on Json role (map.entries verdict.now.faults) verdict.now.events rows.now gaps.now)) }
{
    match covered_value(alloc, verdict, role, rows, gaps) {
        Ok(value) => write_value(alloc, &value, writer),
        Err(_) => Err(RunFault::Memory),
    }
}

/// Writes the report on a verdict for an end in this role as one line of JSON, as `write_json`
/// does, and in each fault what it conflicts with. The reasons are those of the faults, in their
/// order.
///
/// # Errors
///
/// As `write_json`.
#[tactic(auto, unfolding(crate::specs::Reasons::reasoned_json_report))]
pub fn write_reasoned_json<W: Write>(
    alloc: Global,
    verdict: &Verdict,
    role: Role,
    reasons: &[Evidence],
    writer: &mut W,
) -> Result<(), RunFault>
    ensures ok { OnOk result (Appends (W.contents writer.old) (W.contents writer.new)
        (reasoned_report_on Json role (map.entries verdict.now.faults) verdict.now.events reasons.now)) }
    ensures err { IfErr result (FailsToReport Json (W.contents writer.old) (W.contents writer.new)
        (reasoned_report_on Json role (map.entries verdict.now.faults) verdict.now.events reasons.now)) }
{
    match reasoned_report_value(alloc, verdict, role, reasons) {
        Ok(value) => write_value(alloc, &value, writer),
        Err(_) => Err(RunFault::Memory),
    }
}

/// Writes a refusal as one line of JSON: its byte, its name and its number.
///
/// # Errors
///
/// As `write_json`.
pub fn write_refusal<W: Write>(
    alloc: Global,
    refusal: Refusal,
    writer: &mut W,
) -> Result<(), RunFault>
    ensures ok { OnOk result (Appends (W.contents writer.old) (W.contents writer.new) (refused_report Json refusal)) }
    ensures err { IfErr result (FailsToReport Json (W.contents writer.old) (W.contents writer.new) (refused_report Json refusal)) }
{
    match refused_value(alloc, refusal) {
        Ok(value) => write_value(alloc, &value, writer),
        Err(_) => Err(RunFault::Memory),
    }
}

// A refusal as a value.
fn refused_value(alloc: Global, refusal: Refusal) -> Result<Value, AllocError>
    ensures { IfOk result (λ value. view value ≡ refused_data refusal) }
{
    json!(in alloc; {
        "at": refusal.byte(),
        "name": refusal.name(),
        "refused": refusal.number()
    })
}

// The report on a verdict as a value.
fn report_value(alloc: Global, verdict: &Verdict, role: Role) -> Result<Value, AllocError>
    ensures { IfOk result (λ value. view value ≡ report_data role (map.entries verdict.now.faults) verdict.now.events) }
{
    let faults = fault_values(alloc, &verdict.faults, role)?;
    json!(in alloc; {
        "events": verdict.events,
        "faults": faults,
        "verdict": verdict_word(&verdict.faults)
    })
}

// The report on a verdict, how often each of these statements was put to the test, and these gaps,
// as a value.
fn covered_value(
    alloc: Global,
    verdict: &Verdict,
    role: Role,
    rows: &[Covered],
    gaps: &[Gap],
) -> Result<Value, AllocError>
    ensures { IfOk result (λ value. view value ≡ covered_data role (map.entries verdict.now.faults) verdict.now.events rows.now gaps.now) }
{
    let coverage = places_values(alloc, rows, role)?;
    let faults = fault_values(alloc, &verdict.faults, role)?;
    let unjudged = gap_values(alloc, gaps)?;
    json!(in alloc; {
        "coverage": coverage,
        "events": verdict.events,
        "faults": faults,
        "unjudged": unjudged,
        "verdict": verdict_word(&verdict.faults)
    })
}

// The report on a verdict, with what each fault conflicts with, as a value.
fn reasoned_report_value(
    alloc: Global,
    verdict: &Verdict,
    role: Role,
    reasons: &[Evidence],
) -> Result<Value, AllocError>
    ensures { IfOk result (λ value. view value ≡ reasoned_report_data role (map.entries verdict.now.faults) verdict.now.events reasons.now) }
{
    let faults = reasoned_values(alloc, &verdict.faults, role, reasons)?;
    json!(in alloc; {
        "events": verdict.events,
        "faults": faults,
        "verdict": verdict_word(&verdict.faults)
    })
}

// How often each of these statements was put to the test, as values, in their order.
fn places_values(alloc: Global, rows: &[Covered], role: Role) -> Result<Vec<Value>, AllocError>
    ensures { IfOk result (λ values. items_view values.items ≡ places_items role rows.now) }
{
    let mut values = Vec::new(alloc);
    for row in rows {
        let value = places_value(alloc, role, *row)?;
        push(&mut values, value)?;
    }
    Ok(values)
}

// How often a statement was put to the test, as a value.
fn places_value(alloc: Global, role: Role, row: Covered) -> Result<Value, AllocError>
    ensures { IfOk result (λ value. view value ≡ places_data role row) }
{
    json!(in alloc; {
        "citation": row.rule.citation(role),
        "code": row.rule.code(),
        "places": row.places
    })
}

// What wasn't judged, as values, in their order.
fn gap_values(alloc: Global, gaps: &[Gap]) -> Result<Vec<Value>, AllocError>
    ensures { IfOk result (λ values. items_view values.items ≡ gap_items gaps.now) }
{
    let mut values = Vec::new(alloc);
    for gap in gaps {
        let value = gap_value(alloc, *gap)?;
        push(&mut values, value)?;
    }
    Ok(values)
}

// Something that wasn't judged, as a value.
fn gap_value(alloc: Global, gap: Gap) -> Result<Value, AllocError>
    ensures { IfOk result (λ value. view value ≡ gap_data gap) }
{
    if let Some(begun) = gap.begun() {
        return begun_value(alloc, gap, begun);
    }
    match gap.place() {
        Some(
            Place3 {
                position,
                record_no,
                ..
            },
        ) => json!(in alloc; {
            "event": position,
            "record": record_no,
            "what": gap.what(),
            "why": gap.why()
        }),
        None => json!(in alloc; {
            "what": gap.what(),
            "why": gap.why()
        }),
    }
}

// The same, if it is a packet that was begun.
fn begun_value(alloc: Global, gap: Gap, begun: Begun) -> Result<Value, AllocError>
    ensures { gap_begun gap ≡ Some begun → IfOk result (λ value. view value ≡ gap_data gap) }
{
    match gap.place() {
        Some(
            Place3 {
                position,
                record_no,
                ..
            },
        ) => json!(in alloc; {
            "bytes": begun.bytes,
            "event": position,
            "record": record_no,
            "type": begun.type_name(),
            "what": gap.what(),
            "why": gap.why()
        }),
        None => json!(in alloc; {
            "bytes": begun.bytes,
            "type": begun.type_name(),
            "what": gap.what(),
            "why": gap.why()
        }),
    }
}

// The verdict as a word.
fn verdict_word(faults: &Faults) -> &'static str
    ensures { result.now ≡ verdict_word (length (map.entries faults.now)) }
{
    if faults.is_empty() { "pass" } else { "fail" }
}

// The faults as values, in their order.
fn fault_values(alloc: Global, faults: &Faults, role: Role) -> Result<Vec<Value>, AllocError>
    ensures { IfOk result (λ values. items_view values.items ≡ fault_items role (map.entries faults.now)) }
{
    let mut values = Vec::new(alloc);
    for (key, fault) in faults.iter() {
        let value = fault_value(alloc, role, *key, *fault)?;
        push(&mut values, value)?;
    }
    Ok(values)
}

// A fault as a value.
fn fault_value(alloc: Global, role: Role, key: FaultKey, fault: Fault) -> Result<Value, AllocError>
    ensures { IfOk result (λ value. view value ≡ fault_data role key fault) }
{
    json!(in alloc; {
        "citation": key.rule.citation(role),
        "code": key.rule.code(),
        "decided": fault.decided,
        "offset": fault.offset,
        "position": key.position,
        "record": fault.record_no
    })
}

// The faults as values, in their order, each with what it conflicts with.
fn reasoned_values(
    alloc: Global,
    faults: &Faults,
    role: Role,
    reasons: &[Evidence],
) -> Result<Vec<Value>, AllocError>
    ensures { IfOk result (λ values. items_view values.items ≡ reasoned_items role (reasoned (map.entries faults.now) reasons.now)) }
{
    let mut values = Vec::new(alloc);
    let mut left = reasons;
    for (key, fault) in faults.iter() {
        let value = reasoned_value(alloc, role, *key, *fault, first_reason(left))?;
        push(&mut values, value)?;
        left = later_reasons(left);
    }
    Ok(values)
}

// A fault, and what it conflicts with, as a value.
fn reasoned_value(
    alloc: Global,
    role: Role,
    key: FaultKey,
    fault: Fault,
    reason: Evidence,
) -> Result<Value, AllocError>
    ensures { IfOk result (λ value. view value ≡ reasoned_data role ((key, fault), reason)) }
{
    let because = event_value(alloc, reason.because)?;
    let numbers = numbers_value(alloc, reason.numbers)?;
    let value = fault_value(alloc, role, key, fault)?;
    let value = with_member(alloc, value, "because", because)?;
    with_member(alloc, value, "numbers", numbers)
}

// The value with this member, if it is an object; else as it is.
fn with_member(alloc: Global, value: Value, key: &str, member: Value) -> Result<Value, AllocError>
    ensures { IfOk result (λ new. view new ≡ with_member key.now (view member) (view value)) }
{
    match value {
        Value::Object(mut map) => {
            put(&mut map, alloc, key, member)?;
            Ok(Value::Object(map))
        }
        other => Ok(other),
    }
}

// The event because of which a position is at fault, as a value.
fn event_value(alloc: Global, event: Option<u32>) -> Result<Value, AllocError>
    ensures { IfOk result (λ value. view value ≡ event_data event) }
{
    json!(in alloc; event)
}

// The numbers that a statement compares, as a value.
fn numbers_value(alloc: Global, numbers: Numbers) -> Result<Value, AllocError>
    ensures { IfOk result (λ value. view value ≡ array (number_items numbers)) }
{
    match numbers {
        Numbers::Nothing => json!(in alloc; []),
        Numbers::One(a) => json!(in alloc; [a]),
        Numbers::Two(a, b) => json!(in alloc; [a, b]),
    }
}

// Writes a value as one line of JSON.
//
// Errors: As `write_json`.
fn write_value<W: Write>(alloc: Global, value: &Value, writer: &mut W) -> Result<(), RunFault>
    requires { has_float (view value.now) ≡ false }
    ensures ok { OnOk result (Appends (W.contents writer.old) (W.contents writer.new) (line (compact_text (view value.now)))) }
    ensures err { IfErr result (FailsToReport Json (W.contents writer.old) (W.contents writer.new) (line (compact_text (view value.now)))) }
{
    match line_of(alloc, value) {
        Ok(text) => write_bytes(text.as_slice(), writer),
        Err(_) => Err(RunFault::Memory),
    }
}

// A value as one line of JSON.
fn line_of(alloc: Global, value: &Value) -> Result<Vec<u8>, AllocError>
    ensures { IfOk result (λ text. has_float (view value.now) ≡ false → text.items ≡ line (compact_text (view value.now))) }
{
    let mut text = value.to_vec(alloc)?;
    text.push(b'\n')?;
    Ok(text)
}
