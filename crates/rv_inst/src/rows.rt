//! The operation of some fields, and the fields of an operation.

ghost use Rattle.std.specs.Prelude.{◌≡◌, ◌<◌, ◌^◌, IfSome};
ghost use Rattle.rv_inst.specs.Table.{branch_row, load_row, store_row, imm_row, shift_row, reg_row};
ghost use Rattle.rv_inst.specs.Fields.{branch_op_at, load_op_at, store_op_at, imm_op_at, shift_op_at, reg_op_at};

use crate::inst::{BranchOp, ImmOp, LoadOp, RegOp, ShiftOp, StoreOp};
use crate::rows_of;

/// The operation whose row has this funct3.
macro_rules! by_funct3 {
    ($kind:ident ($given:expr) $($op:ident $name:literal $opcode:literal $funct3:literal $funct7:literal,)*) => {
        match $given {
            $($funct3 => Some($kind::$op),)*
            _ => None,
        }
    };
}

/// The operation whose row has this opcode and funct3.
macro_rules! by_opcode_and_funct3 {
    ($kind:ident $given:tt $($op:ident $name:literal $opcode:literal $funct3:literal $funct7:literal,)*) => {
        match $given {
            $(($opcode, $funct3) => Some($kind::$op),)*
            _ => None,
        }
    };
}

/// The operation whose row has this opcode, funct3 and funct7.
macro_rules! by_all {
    ($kind:ident $given:tt $($op:ident $name:literal $opcode:literal $funct3:literal $funct7:literal,)*) => {
        match $given {
            $(($opcode, $funct3, $funct7) => Some($kind::$op),)*
            _ => None,
        }
    };
}

/// What the row of an operation has in the place of funct3.
macro_rules! funct3 {
    ($kind:ident ($given:expr) $($op:ident $name:literal $opcode:literal $funct3:literal $funct7:literal,)*) => {
        match $given {
            $($kind::$op => $funct3,)*
        }
    };
}

/// The row of an operation.
macro_rules! row {
    ($kind:ident ($given:expr) $($op:ident $name:literal $opcode:literal $funct3:literal $funct7:literal,)*) => {
        match $given {
            $($kind::$op => Row { opcode: $opcode, funct3: $funct3, funct7: $funct7 },)*
        }
    };
}

pub fn branch_op(funct3: u32) -> Option<BranchOp>
    ensures found { IfSome result (λ op. (branch_row op).funct3 ≡ funct3) }
    ensures exact { result ≡ branch_op_at funct3 }
{
    rows_of!(BranchOp by_funct3 (funct3))
}

pub fn load_op(funct3: u32) -> Option<LoadOp>
    ensures found { IfSome result (λ op. (load_row op).funct3 ≡ funct3) }
    ensures exact { result ≡ load_op_at funct3 }
{
    rows_of!(LoadOp by_funct3 (funct3))
}

pub fn store_op(funct3: u32) -> Option<StoreOp>
    ensures found { IfSome result (λ op. (store_row op).funct3 ≡ funct3) }
    ensures exact { result ≡ store_op_at funct3 }
{
    rows_of!(StoreOp by_funct3 (funct3))
}

pub fn imm_op(opcode: u32, funct3: u32) -> Option<ImmOp>
    ensures { result ≡ imm_op_at opcode funct3 }
{
    rows_of!(ImmOp by_opcode_and_funct3 (opcode, funct3))
}

pub fn shift_op(opcode: u32, funct3: u32, funct7: u32) -> Option<ShiftOp>
    ensures { result ≡ shift_op_at opcode funct3 funct7 }
{
    rows_of!(ShiftOp by_all (opcode, funct3, funct7))
}

pub fn reg_op(opcode: u32, funct3: u32, funct7: u32) -> Option<RegOp>
    ensures { result ≡ reg_op_at opcode funct3 funct7 }
{
    rows_of!(RegOp by_all (opcode, funct3, funct7))
}

pub fn branch_funct3(op: BranchOp) -> u8
    ensures value { result ≡ (branch_row op).funct3 }
    ensures small { result < 2 ^ 3 }
{
    rows_of!(BranchOp funct3 (op))
}

pub fn load_funct3(op: LoadOp) -> u8
    ensures value { result ≡ (load_row op).funct3 }
    ensures small { result < 2 ^ 3 }
{
    rows_of!(LoadOp funct3 (op))
}

pub fn store_funct3(op: StoreOp) -> u8
    ensures value { result ≡ (store_row op).funct3 }
    ensures small { result < 2 ^ 3 }
{
    rows_of!(StoreOp funct3 (op))
}

#[derive(Clone, Copy)]
pub struct Row {
    pub opcode: u8,
    pub funct3: u8,
    pub funct7: u8,
}

pub fn imm_row(op: ImmOp) -> Row
    ensures opcode { result.opcode ≡ (imm_row op).opcode }
    ensures funct3 { result.funct3 ≡ (imm_row op).funct3 }
    ensures funct7 { result.funct7 ≡ (imm_row op).funct7 }
{
    rows_of!(ImmOp row (op))
}

pub fn shift_row(op: ShiftOp) -> Row
    ensures opcode { result.opcode ≡ (shift_row op).opcode }
    ensures funct3 { result.funct3 ≡ (shift_row op).funct3 }
    ensures funct7 { result.funct7 ≡ (shift_row op).funct7 }
{
    rows_of!(ShiftOp row (op))
}

pub fn reg_row(op: RegOp) -> Row
    ensures opcode { result.opcode ≡ (reg_row op).opcode }
    ensures funct3 { result.funct3 ≡ (reg_row op).funct3 }
    ensures funct7 { result.funct7 ≡ (reg_row op).funct7 }
{
    rows_of!(RegOp row (op))
}
