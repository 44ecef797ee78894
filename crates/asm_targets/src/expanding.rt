//! The instructions that load a number or an address, and how far a branch and a jump reach.

ghost use Rattle.std.specs.Prelude.{◌≡◌, ◌<◌, ◌≤◌, ◌+◌, ◌-◌, ◌*◌, ◌/◌, ◌%◌, ◌^◌, ◌++◌, ℕ, [], ◌∷◌, length, OnOk, IfSome};
ghost use Rattle.rv_inst.specs.Format.{FitsBits, IsEven, low_twelve};
ghost use Rattle.rv_inst.specs.Table.{Fits, word_of};
ghost use Rattle.rv_inst.specs.declared.inst.Inst.TheVariants.{Imm};
ghost use Rattle.asm_targets.specs.Expansions.{fits_signed, high, sign_extended_52, shifted, load_short, load_within, load_number, distance, load_address, offset_to, branch_reach, jump_reach, inst_bytes, code};

use rv_inst::{ImmOp, Inst, Reg, ShiftOp, encode, low_twelve};
use std::alloc::AllocError;

/// Appends the word of an instruction.
#[tactic(auto, unfolding(crate::specs::Expansions::inst_bytes))]
pub fn push_inst(out: &mut Vec<u8>, inst: Inst) -> Result<(), AllocError>
    requires { Fits inst }
    ensures { OnOk result (out.new.items ≡ out.old.items ++ code (inst ∷ [])) }
{
    out.extend_from_slice(&encode(&inst).to_le_bytes())
}

/// Whether a number's 64 bits are those of a number from -2^11 to 2^11 - 1.
fn fits_12_bits(n: u64) -> bool
    ensures { result ≡ fits_signed 11 n }
{
    n < 0x800 || n >= 0xffff_ffff_ffff_f800
}

/// Whether a number's 64 bits are those of a number from -2^31 to 2^31 - 1.
fn fits_32_bits(n: u64) -> bool
    ensures { result ≡ fits_signed 31 n }
{
    n < 0x8000_0000 || n >= 0xffff_ffff_8000_0000
}

/// The upper 52 bits of a number less its low part.
fn rounded(n: u64) -> u64
    ensures value { result ≡ (n + 2 ^ 11) / 2 ^ 12 % 2 ^ 52 }
    ensures below { result < 2 ^ 52 }
{
    n.wrapping_add(0x800) / 0x1000
}

/// The twenty bits from bit 12 on of a number less its low part.
fn high(n: u64) -> u32
    ensures value { result ≡ high n }
    ensures below { result < 2 ^ 20 }
{
    (rounded(n) % 0x10_0000) as u32
}

/// A number less its low part, shifted right by 12 arithmetically.
fn shifted(n: u64) -> u64
    ensures { result ≡ shifted n }
{
    let bits = rounded(n);
    if bits < 0x8_0000_0000_0000 {
        bits
    } else {
        bits + 0xfff0_0000_0000_0000
    }
}

/// Appends what adds the low part of a number to a register.
fn push_low(out: &mut Vec<u8>, op: ImmOp, rd: Reg, rs1: Reg, n: u64) -> Result<(), AllocError>
    ensures { OnOk result (out.new.items ≡ out.old.items ++ code (Imm op rd rs1 (low_twelve n) ∷ [])) }
{
    push_inst(
        out,
        Inst::Imm {
            op,
            rd,
            rs1,
            imm: low_twelve(n),
        },
    )
}

/// Appends the instructions that load a number of 32 signed bits into a register.
fn push_short(out: &mut Vec<u8>, rd: Reg, n: u64) -> Result<(), AllocError>
    ensures { OnOk result (out.new.items ≡ out.old.items ++ code (load_short rd n)) }
{
    if fits_12_bits(n) {
        return push_low(out, ImmOp::Addi, rd, Reg::new(0), n);
    }
    push_inst(out, Inst::Lui { rd, imm: high(n) })?;
    push_low(out, ImmOp::Addiw, rd, rd, n)
}

/// Appends the instructions that load a number into a register, with at most that many shifts.
fn push_within(out: &mut Vec<u8>, shifts: u8, rd: Reg, n: u64) -> Result<(), AllocError>
    ensures { OnOk result (out.new.items ≡ out.old.items ++ code (load_within shifts rd n)) }
{
    if shifts == 0 || fits_32_bits(n) {
        return push_short(out, rd, n);
    }
    push_within(out, shifts - 1, rd, shifted(n))?;
    push_inst(
        out,
        Inst::Shift {
            op: ShiftOp::Slli,
            rd,
            rs1: rd,
            amount: 12,
        },
    )?;
    push_low(out, ImmOp::Addi, rd, rd, n)
}

/// Appends the instructions that load a number into a register.
#[tactic(auto, unfolding(crate::specs::Expansions::load_number))]
pub fn push_number(out: &mut Vec<u8>, rd: Reg, n: u64) -> Result<(), AllocError>
    ensures { OnOk result (out.new.items ≡ out.old.items ++ code (load_number rd n)) }
{
    push_within(out, 3, rd, n)
}

/// How many instructions load a number, with at most that many shifts.
fn count_within(shifts: u8, n: u64) -> u64
    requires { shifts ≤ 3 }
    ensures count { (rd : ℕ) → result ≡ length (load_within shifts rd n) }
    ensures few { result ≤ 2 + 2 * shifts }
{
    if shifts == 0 || fits_32_bits(n) {
        return if fits_12_bits(n) { 1 } else { 2 };
    }
    count_within(shifts - 1, shifted(n)) + 2
}

/// How many instructions load a number.
#[tactic(auto, unfolding(crate::specs::Expansions::load_number))]
pub fn number_count(n: u64) -> u64
    ensures count { (rd : ℕ) → result ≡ length (load_number rd n) }
    ensures few { result ≤ 8 }
{
    count_within(3, n)
}

/// Appends what loads an address into a register, where these instructions stand at another.
pub fn push_address(out: &mut Vec<u8>, rd: Reg, at: u64, target: u64) -> Result<(), AllocError>
    ensures { OnOk result (out.new.items ≡ out.old.items ++ code (load_address rd at target)) }
{
    let distance = target.wrapping_sub(at);
    push_inst(
        out,
        Inst::Auipc {
            rd,
            imm: high(distance),
        },
    )?;
    push_low(out, ImmOp::Addi, rd, rd, distance)
}

/// How far a branch reaches.
pub const BRANCH_REACH: u64 = 0x1000;

/// How far a jump reaches.
pub const JUMP_REACH: u64 = 0x10_0000;

/// The offset from an address to a target, where it is even and in reach.
pub fn offset_to(reach: u64, at: u64, target: u64) -> Option<i32>
    requires { reach ≤ jump_reach }
    ensures value { result ≡ offset_to reach at target }
    ensures even { IfSome result IsEven }
{
    if at <= target {
        let forth = target - at;
        if forth < reach && forth % 2 == 0 {
            Some(forth as i32)
        } else {
            None
        }
    } else {
        let back = at - target;
        if back <= reach && back % 2 == 0 {
            Some(-(back as i32))
        } else {
            None
        }
    }
}
