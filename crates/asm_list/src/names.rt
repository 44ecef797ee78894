//! The names of instructions.

ghost use Rattle.std.specs.Prelude.{◌≡◌};
ghost use Rattle.rv_inst.specs.Table.{branch_row, load_row, store_row, imm_row, shift_row, reg_row, inst_name};

use rv_inst::{BranchOp, ImmOp, Inst, LoadOp, RegOp, ShiftOp, StoreOp, row_name, row_of, rows_of};

/// The name in the row of an operation.
macro_rules! name {
    ($kind:ident ($given:expr) $($op:ident $name:literal $opcode:literal $funct3:literal $funct7:literal,)*) => {
        match $given {
            $($kind::$op => $name,)*
        }
    };
}

fn branch_name(op: BranchOp) -> &'static [u8]
    ensures { result.now ≡ (branch_row op).name }
{
    rows_of!(BranchOp name (op))
}

fn load_name(op: LoadOp) -> &'static [u8]
    ensures { result.now ≡ (load_row op).name }
{
    rows_of!(LoadOp name (op))
}

fn store_name(op: StoreOp) -> &'static [u8]
    ensures { result.now ≡ (store_row op).name }
{
    rows_of!(StoreOp name (op))
}

fn imm_name(op: ImmOp) -> &'static [u8]
    ensures { result.now ≡ (imm_row op).name }
{
    rows_of!(ImmOp name (op))
}

fn shift_name(op: ShiftOp) -> &'static [u8]
    ensures { result.now ≡ (shift_row op).name }
{
    rows_of!(ShiftOp name (op))
}

fn reg_name(op: RegOp) -> &'static [u8]
    ensures { result.now ≡ (reg_row op).name }
{
    rows_of!(RegOp name (op))
}

/// The instruction's name, in lower case.
pub fn inst_name(inst: &Inst) -> &'static [u8]
    ensures { result.now ≡ inst_name inst.now }
{
    match *inst {
        Inst::Lui { .. } => row_of!(Lui row_name),
        Inst::Auipc { .. } => row_of!(Auipc row_name),
        Inst::Jal { .. } => row_of!(Jal row_name),
        Inst::Jalr { .. } => row_of!(Jalr row_name),
        Inst::Branch { op, .. } => branch_name(op),
        Inst::Load { op, .. } => load_name(op),
        Inst::Store { op, .. } => store_name(op),
        Inst::Imm { op, .. } => imm_name(op),
        Inst::Shift { op, .. } => shift_name(op),
        Inst::Op { op, .. } => reg_name(op),
        Inst::Fence { .. } => row_of!(Fence row_name),
        Inst::Ecall => row_of!(Ecall row_name),
        Inst::Ebreak => row_of!(Ebreak row_name),
    }
}
