//! The formats of a word.

ghost use Rattle.std.specs.Prelude.{◌≡◌, ℕ, ◌+◌, ◌*◌, ◌/◌, ◌%◌, ◌^◌, ◌<◌, ◌≤◌};
ghost use Rattle.rv_inst.specs.Format.{r_word, i_word, s_word, b_word, u_word, j_word};

use crate::inst::Reg;

/// The six fields in their places.
fn fields_word(funct7: u32, rs2: u32, rs1: u32, funct3: u32, rd: u32, opcode: u32) -> u32
    requires funct7 { funct7 < 2 ^ 7 }
    requires rs2 { rs2 < 2 ^ 5 }
    requires rs1 { rs1 < 2 ^ 5 }
    requires funct3 { funct3 < 2 ^ 3 }
    requires rd { rd < 2 ^ 5 }
    requires opcode { opcode < 2 ^ 7 }
    ensures { result ≡ r_word funct7 rs2 rs1 funct3 rd opcode }
{
    (funct7 << 25) + (rs2 << 20) + (rs1 << 15) + (funct3 << 12) + (rd << 7) + opcode
}

pub fn r_word(funct7: u8, rs2: Reg, rs1: Reg, funct3: u8, rd: Reg, opcode: u8) -> u32
    requires funct7 { funct7 < 2 ^ 7 }
    requires funct3 { funct3 < 2 ^ 3 }
    requires opcode { opcode < 2 ^ 7 }
    ensures { result ≡ r_word funct7 rs2 rs1 funct3 rd opcode }
{
    fields_word(
        funct7 as u32,
        rs2.number() as u32,
        rs1.number() as u32,
        funct3 as u32,
        rd.number() as u32,
        opcode as u32,
    )
}

pub fn i_word(bits: u16, rs1: Reg, funct3: u8, rd: Reg, opcode: u8) -> u32
    requires bits { bits < 2 ^ 12 }
    requires funct3 { funct3 < 2 ^ 3 }
    requires opcode { opcode < 2 ^ 7 }
    ensures { result ≡ i_word bits rs1 funct3 rd opcode }
{
    fields_word(
        (bits >> 5) as u32,
        (bits & 0x1f) as u32,
        rs1.number() as u32,
        funct3 as u32,
        rd.number() as u32,
        opcode as u32,
    )
}

pub fn s_word(bits: u16, rs2: Reg, rs1: Reg, funct3: u8, opcode: u8) -> u32
    requires bits { bits < 2 ^ 12 }
    requires funct3 { funct3 < 2 ^ 3 }
    requires opcode { opcode < 2 ^ 7 }
    ensures { result ≡ s_word bits rs2 rs1 funct3 opcode }
{
    fields_word(
        (bits >> 5) as u32,
        rs2.number() as u32,
        rs1.number() as u32,
        funct3 as u32,
        (bits & 0x1f) as u32,
        opcode as u32,
    )
}

pub fn b_word(bits: u16, rs2: Reg, rs1: Reg, funct3: u8, opcode: u8) -> u32
    requires bits { bits < 2 ^ 13 }
    requires funct3 { funct3 < 2 ^ 3 }
    requires opcode { opcode < 2 ^ 7 }
    ensures { result ≡ b_word bits rs2 rs1 funct3 opcode }
{
    let high = ((bits >> 12) & 1) * 64 + ((bits >> 5) & 0x3f);
    let low = ((bits >> 1) & 0xf) * 2 + ((bits >> 11) & 1);
    fields_word(
        high as u32,
        rs2.number() as u32,
        rs1.number() as u32,
        funct3 as u32,
        low as u32,
        opcode as u32,
    )
}

pub fn u_word(bits: u32, rd: Reg, opcode: u8) -> u32
    requires bits { bits < 2 ^ 20 }
    requires opcode { opcode < 2 ^ 7 }
    ensures { result ≡ u_word bits rd opcode }
{
    fields_word(
        bits >> 13,
        (bits >> 8) & 0x1f,
        (bits >> 3) & 0x1f,
        bits & 0x7,
        rd.number() as u32,
        opcode as u32,
    )
}

pub fn j_word(bits: u32, rd: Reg, opcode: u8) -> u32
    requires bits { bits < 2 ^ 21 }
    requires opcode { opcode < 2 ^ 7 }
    ensures { result ≡ j_word bits rd opcode }
{
    let high = ((bits >> 20) & 1) * 0x8_0000 + ((bits >> 1) & 0x3ff) * 0x200;
    u_word(
        high + ((bits >> 11) & 1) * 0x100 + ((bits >> 12) & 0xff),
        rd,
        opcode,
    )
}
