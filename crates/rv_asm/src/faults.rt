//! The faults of a source, and which of them counts.

ghost use Rattle.std.specs.Prelude.{◌≡◌, ◌<◌, ◌≤◌, ◌+◌, ◌*◌, ◌^◌, map, option_map, length};
ghost use Rattle.std.specs.List.{list_any};
ghost use Rattle.asm_text.specs.Slots.{seen};
ghost use Rattle.asm_text.specs.Statements.{value_seen, statement_seen};
ghost use Rattle.asm_text.specs.Lines.{line_seen};
ghost use Rattle.asm_targets.specs.Labels.{mark_in, service_in, service_seen};
ghost use Rattle.rv_asm.specs.Layout.{IsReadable, base};
ghost use Rattle.asm_targets.specs.Expansions.{jump_reach};
ghost use Rattle.rv_asm.specs.Faults.{is_odd_place, is_misplaced, label_is_given, service_is_given, is_unknown_value, is_unknown, is_beyond, is_far, statement_fault, label_fault, line_fault, first_fault};

use crate::error::AsmError;
use crate::layout::{FIRST, after};
use asm_targets::{
    BRANCH_REACH, JUMP_REACH, Labels, Mark, Services, mark_in, offset_to, service_in,
};
use asm_text::{Reading, Statement, Value, What};

/// Whether a label stands, and at no multiple of 4.
fn is_odd_place(mark: Option<Mark>) -> bool
    ensures { result ≡ is_odd_place mark }
{
    match mark {
        Some(mark) => mark.address % 4 != 0,
        None => false,
    }
}

/// Whether an instruction stands at no multiple of 4, or a service's label does.
fn is_misplaced(labels: &Labels<'_>, at: u64, statement: &Statement<'_>) -> bool
    ensures { result ≡ is_misplaced (mark_in labels.now) at (statement_seen statement.now) }
{
    match statement {
        Statement::Values { .. } | Statement::Bytes(_) | Statement::Align(_) | Statement::Nothing =>
            false,
        Statement::Service { label, .. } => is_odd_place(mark_in(labels, label)),
        _ => at % 4 != 0,
    }
}

/// Whether a line before gives the label.
fn label_is_given(labels: &Labels<'_>, line: u32, label: Option<&[u8]>) -> bool
    ensures { result ≡ label_is_given (mark_in labels.now) line (option_map (λ x. x.now) label.entry) }
{
    let Some(name) = label else { return false };
    match mark_in(labels, name) {
        Some(mark) => mark.line != line,
        None => false,
    }
}

/// Whether a line before gives the statement's service.
fn service_is_given(services: &Services<'_>, line: u32, statement: &Statement<'_>) -> bool
    ensures { result ≡ service_is_given (service_in services.now) line (statement_seen statement.now) }
{
    let Statement::Service { number, .. } = statement else {
        return false
    };
    match service_in(services, *number) {
        Some(service) => service.line != line,
        None => false,
    }
}

/// Whether a value is the address of a label that no line gives.
fn is_unknown_value(labels: &Labels<'_>, value: &Value<'_>) -> bool
    ensures { result ≡ is_unknown_value (mark_in labels.now) (value_seen value.now) }
{
    match value {
        Value::Number(_) => false,
        Value::Label(label) => mark_in(labels, label).is_none(),
    }
}

fn has_unknown(labels: &Labels<'_>, values: &[Value<'_>]) -> bool
    ensures { result ≡ list_any (is_unknown_value (mark_in labels.now)) (map value_seen values.now) }
{
    for value in values {
        if is_unknown_value(labels, value) {
            return true;
        }
    }
    false
}

/// Whether a statement names a label that no line gives.
fn is_unknown(labels: &Labels<'_>, statement: &Statement<'_>) -> bool
    ensures { result ≡ is_unknown (mark_in labels.now) (statement_seen statement.now) }
{
    match statement {
        Statement::Branch { label, .. }
        | Statement::Jump { label, .. }
        | Statement::LoadAddress { label, .. }
        | Statement::Service { label, .. } => mark_in(labels, label).is_none(),
        Statement::Values { values, .. } => has_unknown(labels, values),
        _ => false,
    }
}

/// Whether a label that stands is out of reach.
fn is_beyond(reach: u64, at: u64, mark: Option<Mark>) -> bool
    requires { reach ≤ jump_reach }
    ensures { result ≡ is_beyond reach at mark }
{
    match mark {
        Some(mark) => offset_to(reach, at, mark.address).is_none(),
        None => false,
    }
}

/// Whether a branch or a jump doesn't reach its label.
fn is_far(labels: &Labels<'_>, at: u64, statement: &Statement<'_>) -> bool
    ensures { result ≡ is_far (mark_in labels.now) at (statement_seen statement.now) }
{
    match statement {
        Statement::Branch { label, .. } => is_beyond(BRANCH_REACH, at, mark_in(labels, label)),
        Statement::Jump { label, .. } => is_beyond(JUMP_REACH, at, mark_in(labels, label)),
        _ => false,
    }
}

/// The fault of a statement and the label before it.
fn statement_fault(
    labels: &Labels<'_>,
    services: &Services<'_>,
    mark: Mark,
    label: Option<&[u8]>,
    statement: &Statement<'_>,
) -> Option<AsmError>
    ensures { result ≡ statement_fault (mark_in labels.now) (service_in services.now) mark.line mark.address (option_map (λ x. x.now) label.entry) (statement_seen statement.now) }
{
    let line = mark.line;
    if is_misplaced(labels, mark.address, statement) {
        return Some(AsmError::BadLine {
            line,
            what: What::Place,
        });
    }
    if label_is_given(labels, line, label) || service_is_given(services, line, statement) {
        return Some(AsmError::Twice { line });
    }
    if is_unknown(labels, statement) {
        return Some(AsmError::Unknown { line });
    }
    if is_far(labels, mark.address, statement) {
        return Some(AsmError::FarTarget { line });
    }
    None
}

/// The fault of a label without a statement.
fn label_fault(labels: &Labels<'_>, line: u32, label: Option<&[u8]>) -> Option<AsmError>
    ensures { result ≡ label_fault (mark_in labels.now) line (option_map (λ x. x.now) label.entry) }
{
    if label_is_given(labels, line, label) {
        Some(AsmError::Twice { line })
    } else {
        None
    }
}

/// The fault of a line.
fn line_fault(
    labels: &Labels<'_>,
    services: &Services<'_>,
    mark: Mark,
    reading: &Reading<'_>,
) -> Option<AsmError>
    ensures { result ≡ line_fault (mark_in labels.now) (service_in services.now) mark.line mark.address (seen line_seen reading.now) }
{
    match reading {
        Err(what) => Some(AsmError::BadLine {
            line: mark.line,
            what: *what,
        }),
        Ok(line) => match &line.statement {
            Some(statement) => statement_fault(labels, services, mark, line.label, statement),
            None => label_fault(labels, mark.line, line.label),
        },
    }
}

/// The fault of the lowest line that has one.
pub fn first_fault(
    labels: &Labels<'_>,
    services: &Services<'_>,
    readings: &[Reading<'_>],
) -> Option<AsmError>
    requires { IsReadable readings.now }
    ensures { result ≡ first_fault (mark_in labels.now) (service_in services.now) 1 base (map (seen line_seen) readings.now) }
{
    let mut mark = FIRST;
    for reading in readings {
        if let Some(fault) = line_fault(labels, services, mark, reading) {
            return Some(fault);
        }
        mark = after(mark, reading);
    }
    None
}
