//! From a word to its instruction.

ghost use Rattle.std.specs.Prelude.{◌≡◌, ℕ, ◌+◌, ◌*◌, ◌/◌, ◌%◌, ◌^◌, ◌<◌, ◌≤◌, ◌⊎◌, IfSome, Some};
ghost use Rattle.rv_inst.specs.declared.inst.Inst.{Inst};
ghost use Rattle.rv_inst.specs.Table.{word_of, Fits};
ghost use Rattle.rv_inst.specs.Fields.{inst_of};

use crate::fields::{
    b_offset, fence_bits, funct3_of, funct6_of, funct7_of, i_offset, j_offset, rd_of, rs1_of,
    rs2_of, s_offset, shift_amount, shift_w_amount, u_imm,
};
use crate::inst::{ImmOp, Inst};
use crate::rows::{branch_op, imm_op, load_op, reg_op, shift_op, store_op};
use crate::{row_funct3, row_of, row_opcode, row_word};

/// The instruction of a word of the opcode 0x67.
#[inline(always)]
fn jump_by(word: u32) -> Option<Inst>
    requires { word % 2 ^ 7 ≡ 0x67 }
    ensures found { IfSome result (λ i. Fits i × (word_of i ≡ word)) }
    ensures exact { result ≡ inst_of word }
{
    if funct3_of(word) != row_of!(Jalr row_funct3) {
        return None;
    }
    Some(Inst::Jalr {
        rd: rd_of(word),
        rs1: rs1_of(word),
        offset: i_offset(word),
    })
}

/// The instruction of a word of the opcode 0x63.
#[inline(always)]
fn branch(word: u32) -> Option<Inst>
    requires { word % 2 ^ 7 ≡ 0x63 }
    ensures found { IfSome result (λ i. Fits i × (word_of i ≡ word)) }
    ensures exact { result ≡ inst_of word }
{
    let op = branch_op(funct3_of(word))?;
    Some(Inst::Branch {
        op,
        rs1: rs1_of(word),
        rs2: rs2_of(word),
        offset: b_offset(word),
    })
}

/// The instruction of a word of the opcode 0x03.
#[inline(always)]
fn load(word: u32) -> Option<Inst>
    requires { word % 2 ^ 7 ≡ 0x03 }
    ensures found { IfSome result (λ i. Fits i × (word_of i ≡ word)) }
    ensures exact { result ≡ inst_of word }
{
    let op = load_op(funct3_of(word))?;
    Some(Inst::Load {
        op,
        rd: rd_of(word),
        rs1: rs1_of(word),
        offset: i_offset(word),
    })
}

/// The instruction of a word of the opcode 0x23.
#[inline(always)]
fn store(word: u32) -> Option<Inst>
    requires { word % 2 ^ 7 ≡ 0x23 }
    ensures found { IfSome result (λ i. Fits i × (word_of i ≡ word)) }
    ensures exact { result ≡ inst_of word }
{
    let op = store_op(funct3_of(word))?;
    Some(Inst::Store {
        op,
        rs1: rs1_of(word),
        rs2: rs2_of(word),
        offset: s_offset(word),
    })
}

/// The instruction of a word of the opcode 0x13.
#[inline(always)]
fn immediate(word: u32) -> Option<Inst>
    requires { word % 2 ^ 7 ≡ 0x13 }
    ensures found { IfSome result (λ i. Fits i × (word_of i ≡ word)) }
    ensures exact { result ≡ inst_of word }
{
    if let Some(op) = imm_op(0x13, funct3_of(word)) {
        return Some(Inst::Imm {
            op,
            rd: rd_of(word),
            rs1: rs1_of(word),
            imm: i_offset(word),
        });
    }
    let op = shift_op(0x13, funct3_of(word), funct6_of(word))?;
    Some(Inst::Shift {
        op,
        rd: rd_of(word),
        rs1: rs1_of(word),
        amount: shift_amount(word),
    })
}

/// The instruction of a word of the opcode 0x1b.
#[inline(always)]
fn immediate_w(word: u32) -> Option<Inst>
    requires { word % 2 ^ 7 ≡ 0x1b }
    ensures found { IfSome result (λ i. Fits i × (word_of i ≡ word)) }
    ensures exact { result ≡ inst_of word }
{
    if funct3_of(word) == 0 {
        return Some(Inst::Imm {
            op: ImmOp::Addiw,
            rd: rd_of(word),
            rs1: rs1_of(word),
            imm: i_offset(word),
        });
    }
    let op = shift_op(0x1b, funct3_of(word), funct7_of(word))?;
    Some(Inst::Shift {
        op,
        rd: rd_of(word),
        rs1: rs1_of(word),
        amount: shift_w_amount(word),
    })
}

/// The instruction of a word of the opcode 0x33 or 0x3b.
#[inline(always)]
fn registers(opcode: u32, word: u32) -> Option<Inst>
    requires opcode { (opcode ≡ 0x33) ⊎ (opcode ≡ 0x3b) }
    requires word { word % 2 ^ 7 ≡ opcode }
    ensures found { IfSome result (λ i. Fits i × (word_of i ≡ word)) }
    ensures exact { result ≡ inst_of word }
{
    let op = reg_op(opcode, funct3_of(word), funct7_of(word))?;
    Some(Inst::Op {
        op,
        rd: rd_of(word),
        rs1: rs1_of(word),
        rs2: rs2_of(word),
    })
}

/// The instruction of a word of the opcode 0x0f.
#[inline(always)]
fn fence(word: u32) -> Option<Inst>
    requires { word % 2 ^ 7 ≡ 0x0f }
    ensures found { IfSome result (λ i. Fits i × (word_of i ≡ word)) }
    ensures exact { result ≡ inst_of word }
{
    if funct3_of(word) != row_of!(Fence row_funct3) {
        return None;
    }
    Some(Inst::Fence {
        rd: rd_of(word),
        rs1: rs1_of(word),
        bits: fence_bits(word),
    })
}

/// The instruction of a word of the opcode 0x73.
#[inline(always)]
fn system(word: u32) -> Option<Inst>
    requires { word % 2 ^ 7 ≡ 0x73 }
    ensures found { IfSome result (λ i. Fits i × (word_of i ≡ word)) }
    ensures exact { result ≡ inst_of word }
{
    match word {
        row_of!(Ecall row_word) => Some(Inst::Ecall),
        row_of!(Ebreak row_word) => Some(Inst::Ebreak),
        _ => None,
    }
}

/// The instruction of the word, by its opcode.
#[inline(always)]
fn decoded(word: u32) -> Option<Inst>
    ensures found { IfSome result (λ i. Fits i × (word_of i ≡ word)) }
    ensures exact { result ≡ inst_of word }
{
    match word & 0x7f {
        row_of!(Lui row_opcode) => Some(Inst::Lui {
            rd: rd_of(word),
            imm: u_imm(word),
        }),
        row_of!(Auipc row_opcode) => Some(Inst::Auipc {
            rd: rd_of(word),
            imm: u_imm(word),
        }),
        row_of!(Jal row_opcode) => Some(Inst::Jal {
            rd: rd_of(word),
            offset: j_offset(word),
        }),
        row_of!(Jalr row_opcode) => jump_by(word),
        0x63 => branch(word),
        0x03 => load(word),
        0x23 => store(word),
        0x13 => immediate(word),
        0x1b => immediate_w(word),
        0x33 => registers(0x33, word),
        0x3b => registers(0x3b, word),
        row_of!(Fence row_opcode) => fence(word),
        0x73 => system(word),
        _ => None,
    }
}

/// The instruction of the word, None exactly where the table has no row for it.
#[inline(always)]
pub fn decode(word: u32) -> Option<Inst>
    // What is decoded has this word.
    ensures found { IfSome result (λ i. Fits i × (word_of i ≡ word)) }
    // What has this word is decoded.
    ensures only { (i : Inst) → Fits i → word_of i ≡ word → result ≡ Some i }
    ensures exact { result ≡ inst_of word }
{
    decoded(word)
}
