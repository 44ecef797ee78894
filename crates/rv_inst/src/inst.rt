//! Registers, operations and instructions of RV64IM, named as in the RISC-V unprivileged manual, "RV32/64G Instruction Set
//! Listings".

ghost use Rattle.std.specs.Prelude.{◌≡◌, ◌<◌};

use std::marker::Model;

/// A register, by its number below 32. Contracts see the number.
#[derive(Clone, Copy, PartialEq, Eq)]
pub struct Reg(u8);

impl Model for Reg {
    ghost use Rattle.std.specs.Prelude.{ℕ, ◌<◌};

    ghost Value = { ℕ };

    ghost view = { λ r. r.0 };

    ghost invariant = { λ r. r.0 < 32 };

    ghost inverse = { λ n. record { 0 = n } };
}

impl Reg {
    /// The register of a number below 32.
    pub fn new(number: u8) -> Reg
        requires { number < 32 }
        ensures { result ≡ number }
    {
        Reg(number)
    }

    /// The register's number.
    pub fn number(self) -> u8
        ensures value { result ≡ self }
        ensures below { result < 32 }
    {
        self.0
    }
}

/// The branches: opcode 0x63, a row by funct3.
#[derive(Clone, Copy)]
pub enum BranchOp {
    Beq,
    Bne,
    Blt,
    Bge,
    Bltu,
    Bgeu,
}

/// The loads: opcode 0x03, a row by funct3.
#[derive(Clone, Copy)]
pub enum LoadOp {
    Lb,
    Lh,
    Lw,
    Ld,
    Lbu,
    Lhu,
    Lwu,
}

/// The stores: opcode 0x23, a row by funct3.
#[derive(Clone, Copy)]
pub enum StoreOp {
    Sb,
    Sh,
    Sw,
    Sd,
}

/// The operations on a register and twelve bits: opcode 0x13, and ADDIW of 0x1b.
#[derive(Clone, Copy)]
pub enum ImmOp {
    Addi,
    Slti,
    Sltiu,
    Xori,
    Ori,
    Andi,
    Addiw,
}

/// The shifts by an amount in the word: opcode 0x13, and the W forms of 0x1b.
#[derive(Clone, Copy)]
pub enum ShiftOp {
    Slli,
    Srli,
    Srai,
    Slliw,
    Srliw,
    Sraiw,
}

/// The operations on two registers: opcode 0x33, and the W forms of 0x3b; from `Mul` on, those of the M extension.
#[derive(Clone, Copy)]
pub enum RegOp {
    Add,
    Sub,
    Sll,
    Slt,
    Sltu,
    Xor,
    Srl,
    Sra,
    Or,
    And,
    Addw,
    Subw,
    Sllw,
    Srlw,
    Sraw,
    Mul,
    Mulh,
    Mulhsu,
    Mulhu,
    Div,
    Divu,
    Rem,
    Remu,
    Mulw,
    Divw,
    Divuw,
    Remw,
    Remuw,
}

/// One instruction. An offset is in bytes, and counts from the instruction's own address in a jump or branch, else from rs1.
#[derive(Clone, Copy)]
pub enum Inst {
    /// rd gets imm, below 2^20, in bits 31 to 12, sign-extended.
    Lui {
        rd: Reg,
        imm: u32,
    },
    /// rd gets the pc plus what LUI gives.
    Auipc {
        rd: Reg,
        imm: u32,
    },
    /// To the pc plus an even offset of 21 bits; rd gets the address after this instruction.
    Jal {
        rd: Reg,
        offset: i32,
    },
    /// To rs1 plus an offset of 12 bits, with bit 0 cleared; rd gets the address after this instruction.
    Jalr {
        rd: Reg,
        rs1: Reg,
        offset: i16,
    },
    /// To the pc plus an even offset of 13 bits, where the comparison of rs1 and rs2 holds.
    Branch {
        op: BranchOp,
        rs1: Reg,
        rs2: Reg,
        offset: i16,
    },
    /// rd gets bytes from rs1 plus an offset of 12 bits on.
    Load {
        op: LoadOp,
        rd: Reg,
        rs1: Reg,
        offset: i16,
    },
    /// The low bytes of rs2 go to rs1 plus an offset of 12 bits.
    Store {
        op: StoreOp,
        rs1: Reg,
        rs2: Reg,
        offset: i16,
    },
    /// rd gets rs1 with imm, of 12 bits.
    Imm {
        op: ImmOp,
        rd: Reg,
        rs1: Reg,
        imm: i16,
    },
    /// rd gets rs1 shifted by an amount below 64, or below 32 in the W forms.
    Shift {
        op: ShiftOp,
        rd: Reg,
        rs1: Reg,
        amount: u8,
    },
    /// rd gets rs1 with rs2.
    Op {
        op: RegOp,
        rd: Reg,
        rs1: Reg,
        rs2: Reg,
    },
    /// Nothing: one thread sees its memory in order. The other bits of its word are free.
    Fence {
        rd: Reg,
        rs1: Reg,
        bits: u16,
    },
    /// A call of the library.
    Ecall,
    /// A breakpoint.
    Ebreak,
}
