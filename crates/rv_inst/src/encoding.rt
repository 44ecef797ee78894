//! From an instruction to its word, and both ways round.

ghost use Rattle.std.specs.Prelude.{◌≡◌, ℕ, ◌+◌, ◌*◌, ◌/◌, ◌%◌, ◌^◌, ◌<◌, ◌≤◌, IfSome, Some};
ghost use Rattle.rv_inst.specs.Table.{word_of, Fits};

use crate::decoding::decode;
use crate::formats::{b_word, i_word, j_word, r_word, s_word, u_word};
use crate::inst::Inst;
use crate::rows::{branch_funct3, imm_row, load_funct3, reg_row, shift_row, store_funct3};
use crate::{row_funct3, row_of, row_opcode, row_word};

/// The word of the instruction, whose fields fit their places in the word.
pub fn encode(inst: &Inst) -> u32
    requires { Fits inst.now }
    ensures { result ≡ word_of inst.now }
{
    match *inst {
        Inst::Lui { rd, imm } => u_word(imm, rd, row_of!(Lui row_opcode)),
        Inst::Auipc { rd, imm } => u_word(imm, rd, row_of!(Auipc row_opcode)),
        Inst::Jal { rd, offset } => j_word(
            offset.cast_unsigned() & 0x1f_ffff,
            rd,
            row_of!(Jal row_opcode),
        ),
        Inst::Jalr { rd, rs1, offset } => i_word(
            offset.cast_unsigned() & 0xfff,
            rs1,
            row_of!(Jalr row_funct3),
            rd,
            row_of!(Jalr row_opcode),
        ),
        Inst::Branch {
            op,
            rs1,
            rs2,
            offset,
        } => {
            b_word(
                offset.cast_unsigned() & 0x1fff,
                rs2,
                rs1,
                branch_funct3(op),
                0x63,
            )
        }
        Inst::Load {
            op,
            rd,
            rs1,
            offset,
        } => {
            i_word(
                offset.cast_unsigned() & 0xfff,
                rs1,
                load_funct3(op),
                rd,
                0x03,
            )
        }
        Inst::Store {
            op,
            rs1,
            rs2,
            offset,
        } => {
            s_word(
                offset.cast_unsigned() & 0xfff,
                rs2,
                rs1,
                store_funct3(op),
                0x23,
            )
        }
        Inst::Imm { op, rd, rs1, imm } => {
            let row = imm_row(op);
            i_word(imm.cast_unsigned() & 0xfff, rs1, row.funct3, rd, row.opcode)
        }
        Inst::Shift {
            op,
            rd,
            rs1,
            amount,
        } => {
            let row = shift_row(op);
            i_word(
                ((row.funct7 as u16) << 5) + amount as u16,
                rs1,
                row.funct3,
                rd,
                row.opcode,
            )
        }
        Inst::Op { op, rd, rs1, rs2 } => {
            let row = reg_row(op);
            r_word(row.funct7, rs2, rs1, row.funct3, rd, row.opcode)
        }
        Inst::Fence { rd, rs1, bits } => i_word(
            bits,
            rs1,
            row_of!(Fence row_funct3),
            rd,
            row_of!(Fence row_opcode),
        ),
        Inst::Ecall => row_of!(Ecall row_word),
        Inst::Ebreak => row_of!(Ebreak row_word),
    }
}

/// What is encoded is decoded again.
fn decode_encode(inst: &Inst) -> Option<Inst>
    requires { Fits inst.now }
    ensures { result ≡ Some inst.now }
{
    decode(encode(inst))
}

/// What is decoded is encoded again.
fn encode_decode(word: u32) -> Option<u32>
    ensures { IfSome result (λ again. again ≡ word) }
{
    match decode(word) {
        Some(inst) => Some(encode(&inst)),
        None => None,
    }
}
