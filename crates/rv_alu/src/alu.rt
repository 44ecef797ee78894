//! What the operations compute.

ghost use Rattle.std.specs.Prelude.{◌≡◌, ◌<◌, ◌^◌, ◌%◌};
ghost use Rattle.rv_alu.specs.Alu.{low, extended, reg_value, imm_value, shift_value, taken};

use crate::products::{div, divu, divuw, divw, mulh, mulhsu, mulhu, mulw, rem, remu, remuw, remw};
use rv_inst::{BranchOp, ImmOp, RegOp, ShiftOp};

/// The low 32 bits.
pub(crate) fn low(x: u64) -> u32
    ensures { result ≡ low x }
{
    (x & 0xffff_ffff) as u32
}

/// 32 bits, sign-extended to 64.
pub fn extended(x: u32) -> u64
    ensures { result ≡ extended x }
{
    (x.cast_signed() as i64).cast_unsigned()
}

/// What an operation on two registers computes.
pub fn reg_value(op: RegOp, x: u64, y: u64) -> u64
    ensures { result ≡ reg_value op x y }
{
    match op {
        RegOp::Add => x.wrapping_add(y),
        RegOp::Sub => x.wrapping_sub(y),
        RegOp::Sll => x << (y & 0x3f),
        RegOp::Slt => (x.cast_signed() < y.cast_signed()) as u64,
        RegOp::Sltu => (x < y) as u64,
        RegOp::Xor => x ^ y,
        RegOp::Srl => x >> (y & 0x3f),
        RegOp::Sra => (x.cast_signed() >> (y & 0x3f)).cast_unsigned(),
        RegOp::Or => x | y,
        RegOp::And => x & y,
        RegOp::Addw => extended(low(x).wrapping_add(low(y))),
        RegOp::Subw => extended(low(x).wrapping_sub(low(y))),
        RegOp::Sllw => extended(low(x) << (y & 0x1f)),
        RegOp::Srlw => extended(low(x) >> (y & 0x1f)),
        RegOp::Sraw => ((low(x).cast_signed() >> (y & 0x1f)) as i64).cast_unsigned(),
        RegOp::Mul => x.wrapping_mul(y),
        RegOp::Mulh => mulh(x, y),
        RegOp::Mulhsu => mulhsu(x, y),
        RegOp::Mulhu => mulhu(x, y),
        RegOp::Div => div(x, y),
        RegOp::Divu => divu(x, y),
        RegOp::Rem => rem(x, y),
        RegOp::Remu => remu(x, y),
        RegOp::Mulw => mulw(x, y),
        RegOp::Divw => divw(x, y),
        RegOp::Divuw => divuw(x, y),
        RegOp::Remw => remw(x, y),
        RegOp::Remuw => remuw(x, y),
    }
}

/// What an operation on a register and an immediate computes.
pub fn imm_value(op: ImmOp, x: u64, imm: i16) -> u64
    ensures { result ≡ imm_value op x imm }
{
    let y = (imm as i64).cast_unsigned();
    match op {
        ImmOp::Addi => x.wrapping_add(y),
        ImmOp::Slti => (x.cast_signed() < imm as i64) as u64,
        ImmOp::Sltiu => (x < y) as u64,
        ImmOp::Xori => x ^ y,
        ImmOp::Ori => x | y,
        ImmOp::Andi => x & y,
        ImmOp::Addiw => extended(low(x).wrapping_add(low(y))),
    }
}

/// What a shift by an amount computes.
pub fn shift_value(op: ShiftOp, x: u64, amount: u8) -> u64
    ensures { result ≡ shift_value op x amount }
{
    let y = amount as u64;
    match op {
        ShiftOp::Slli => reg_value(RegOp::Sll, x, y),
        ShiftOp::Srli => reg_value(RegOp::Srl, x, y),
        ShiftOp::Srai => reg_value(RegOp::Sra, x, y),
        ShiftOp::Slliw => reg_value(RegOp::Sllw, x, y),
        ShiftOp::Srliw => reg_value(RegOp::Srlw, x, y),
        ShiftOp::Sraiw => reg_value(RegOp::Sraw, x, y),
    }
}

/// Whether a branch is taken.
pub fn taken(op: BranchOp, x: u64, y: u64) -> bool
    ensures { result ≡ taken op x y }
{
    match op {
        BranchOp::Beq => x == y,
        BranchOp::Bne => x != y,
        BranchOp::Blt => x.cast_signed() < y.cast_signed(),
        BranchOp::Bge => x.cast_signed() >= y.cast_signed(),
        BranchOp::Bltu => x < y,
        BranchOp::Bgeu => x >= y,
    }
}
