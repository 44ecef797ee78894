//! The bytes of the lines, once each label has its place.

ghost use Rattle.std.specs.Prelude.{◌≡◌, ◌<◌, ◌≤◌, ◌+◌, ◌*◌, ◌^◌, ◌++◌, ◌∷◌, [], replicate, map, length, OnOk, IfOk, IfSome};
ghost use Rattle.std.specs.List.{flat_map};
ghost use Rattle.rv_inst.specs.declared.inst.Inst.TheVariants.{Branch, Jal};
ghost use Rattle.asm_text.specs.Slots.{seen};
ghost use Rattle.asm_text.specs.Statements.{value_seen, statement_seen, IsSound};
ghost use Rattle.asm_text.specs.Lines.{line_seen, HasSound};
ghost use Rattle.asm_targets.specs.Labels.{mark_in};
ghost use Rattle.rv_asm.specs.Layout.{IsReadable, base, limit};
ghost use Rattle.asm_targets.specs.Expansions.{branch_reach, jump_reach};
ghost use Rattle.rv_asm.specs.Bytes.{address_of, bytes_of_width, number_of_value, offset_bytes, statement_bytes, line_bytes, all_bytes};

use crate::layout::{FIRST, after, padding};
use asm_targets::{
    BRANCH_REACH, JUMP_REACH, Labels, Mark, mark_in, offset_to, push_address, push_inst,
    push_number,
};
use asm_text::{Line, Reading, Statement, Value, Width};
use rv_inst::{BranchOp, Inst, Reg};
use std::alloc::AllocError;

/// The address of a label that stands.
pub fn address_of(labels: &Labels<'_>, name: &[u8]) -> u64
    ensures { result ≡ address_of (mark_in labels.now) name.now }
{
    match mark_in(labels, name) {
        Some(mark) => mark.address,
        None => 0,
    }
}

/// Appends the low bytes of a number.
fn push_low_bytes(out: &mut Vec<u8>, width: Width, n: u64) -> Result<(), AllocError>
    ensures { OnOk result (out.new.items ≡ out.old.items ++ bytes_of_width width n) }
{
    match width {
        Width::Byte => out.extend_from_slice(&[(n % 0x100) as u8]),
        Width::Word => out.extend_from_slice(&((n % 0x1_0000_0000) as u32).to_le_bytes()),
        Width::Dword => out.extend_from_slice(&n.to_le_bytes()),
    }
}

/// The number that a value is.
fn number_of_value(labels: &Labels<'_>, value: &Value<'_>) -> u64
    ensures { result ≡ number_of_value (mark_in labels.now) (value_seen value.now) }
{
    match value {
        Value::Number(n) => *n,
        Value::Label(label) => address_of(labels, label),
    }
}

/// Appends the values of a directive.
fn push_values(
    out: &mut Vec<u8>,
    labels: &Labels<'_>,
    width: Width,
    values: &[Value<'_>],
) -> Result<(), AllocError>
    ensures { OnOk result (out.new.items ≡ out.old.items ++ flat_map (λ v. bytes_of_width width (number_of_value (mark_in labels.now) v)) (map value_seen values.now)) }
{
    for value in values {
        push_low_bytes(out, width, number_of_value(labels, value))?;
    }
    Ok(())
}

/// Appends zeros.
fn push_zeros(out: &mut Vec<u8>, count: u64) -> Result<(), AllocError>
    ensures { OnOk result (out.new.items ≡ out.old.items ++ replicate count 0) }
{
    for _zero in 0..count {
        out.push(0)?;
    }
    Ok(())
}

/// Appends a branch to a label, unless it is out of reach.
fn push_branch(
    out: &mut Vec<u8>,
    op: BranchOp,
    rs1: Reg,
    rs2: Reg,
    at: u64,
    mark: Option<Mark>,
) -> Result<(), AllocError>
    ensures { OnOk result (out.new.items ≡ out.old.items ++ offset_bytes branch_reach at (Branch op rs1 rs2) mark) }
{
    let Some(mark) = mark else { return Ok(()) };
    let Some(offset) = offset_to(BRANCH_REACH, at, mark.address) else {
        return Ok(())
    };
    push_inst(
        out,
        Inst::Branch {
            op,
            rs1,
            rs2,
            offset: offset as i16,
        },
    )
}

/// Appends a jump to a label, unless it is out of reach.
fn push_jump(out: &mut Vec<u8>, rd: Reg, at: u64, mark: Option<Mark>) -> Result<(), AllocError>
    ensures { OnOk result (out.new.items ≡ out.old.items ++ offset_bytes jump_reach at (Jal rd) mark) }
{
    let Some(mark) = mark else { return Ok(()) };
    let Some(offset) = offset_to(JUMP_REACH, at, mark.address) else {
        return Ok(())
    };
    push_inst(out, Inst::Jal { rd, offset })
}

/// Appends the bytes of a statement that stands at an address.
fn push_statement(
    out: &mut Vec<u8>,
    labels: &Labels<'_>,
    at: u64,
    statement: &Statement<'_>,
) -> Result<(), AllocError>
    requires { IsSound limit (statement_seen statement.now) }
    ensures { OnOk result (out.new.items ≡ out.old.items ++ statement_bytes (mark_in labels.now) at (statement_seen statement.now)) }
{
    match statement {
        Statement::Plain(inst) => push_inst(out, *inst),
        Statement::Branch {
            op,
            rs1,
            rs2,
            label,
        } => push_branch(out, *op, *rs1, *rs2, at, mark_in(labels, label)),
        Statement::Jump { rd, label } => push_jump(out, *rd, at, mark_in(labels, label)),
        Statement::LoadNumber { rd, number } => push_number(out, *rd, *number),
        Statement::LoadAddress { rd, label } => {
            push_address(out, *rd, at, address_of(labels, label))
        }
        Statement::Values { width, values } => push_values(out, labels, *width, values),
        Statement::Bytes(bytes) => out.extend_from_slice(bytes),
        Statement::Align(k) => push_zeros(out, padding(*k, at)),
        Statement::Service { .. } | Statement::Nothing => Ok(()),
    }
}

/// Appends the bytes of a line that stands at an address.
fn push_line(
    out: &mut Vec<u8>,
    labels: &Labels<'_>,
    at: u64,
    reading: &Reading<'_>,
) -> Result<(), AllocError>
    requires { HasSound limit (seen line_seen reading.now) }
    ensures { OnOk result (out.new.items ≡ out.old.items ++ line_bytes (mark_in labels.now) at (seen line_seen reading.now)) }
{
    match reading {
        Ok(
            Line {
                statement: Some(statement),
                ..
            },
        ) => push_statement(out, labels, at, statement),
        _ => Ok(()),
    }
}

/// Appends the bytes of the lines.
pub fn push_lines(
    out: &mut Vec<u8>,
    labels: &Labels<'_>,
    readings: &[Reading<'_>],
) -> Result<(), AllocError>
    requires { IsReadable readings.now }
    ensures { OnOk result (out.new.items ≡ out.old.items ++ all_bytes (mark_in labels.now) base (map (seen line_seen) readings.now)) }
{
    let mut mark = FIRST;
    for reading in readings {
        push_line(out, labels, mark.address, reading)?;
        mark = after(mark, reading);
    }
    Ok(())
}
