//! The fields of a word.

ghost use Rattle.std.specs.Prelude.{◌≡◌, ℕ, ◌+◌, ◌*◌, ◌/◌, ◌%◌, ◌^◌, ◌<◌, ◌≤◌};
ghost use Rattle.std.specs.Int.{cast_unsigned, w16, w32};
ghost use Rattle.rv_inst.specs.Format.{FitsBits, IsEven, signed, low_twelve};
ghost use Rattle.rv_inst.specs.Fields.{b_bits, j_bits};

use crate::inst::Reg;

pub fn rd_of(word: u32) -> Reg
    ensures { result ≡ word / 2 ^ 7 % 32 }
{
    Reg::new(((word >> 7) & 0x1f) as u8)
}

pub fn rs1_of(word: u32) -> Reg
    ensures { result ≡ word / 2 ^ 15 % 32 }
{
    Reg::new(((word >> 15) & 0x1f) as u8)
}

pub fn rs2_of(word: u32) -> Reg
    ensures { result ≡ word / 2 ^ 20 % 32 }
{
    Reg::new(((word >> 20) & 0x1f) as u8)
}

/// The six bits above a shift's amount, in the place of funct7.
pub fn funct6_of(word: u32) -> u32
    ensures { result ≡ word / 2 ^ 25 / 2 * 2 }
{
    word >> 26 << 1
}

pub fn shift_amount(word: u32) -> u8
    ensures value { result ≡ word / 2 ^ 20 % 64 }
    ensures exact { result ≡ word / 2 ^ 25 % 2 * 32 + word / 2 ^ 20 % 32 }
{
    ((word >> 20) & 0x3f) as u8
}

pub fn shift_w_amount(word: u32) -> u8
    ensures { result ≡ word / 2 ^ 20 % 32 }
{
    ((word >> 20) & 0x1f) as u8
}

pub fn funct3_of(word: u32) -> u32
    ensures { result ≡ word / 2 ^ 12 % 2 ^ 3 }
{
    (word >> 12) & 0x7
}

pub fn funct7_of(word: u32) -> u32
    ensures { result ≡ word / 2 ^ 25 }
{
    word >> 25
}

pub fn u_imm(word: u32) -> u32
    ensures { result ≡ word / 2 ^ 12 }
{
    word >> 12
}

pub fn fence_bits(word: u32) -> u16
    ensures { result ≡ word / 2 ^ 20 }
{
    (word >> 20) as u16
}

/// Twelve bits as a signed number.
fn signed_12(bits: u32) -> i16
    requires { bits < 2 ^ 12 }
    ensures fits { FitsBits 11 result }
    ensures value { cast_unsigned w16 result % 2 ^ 12 ≡ bits }
    ensures exact { result ≡ signed 11 bits }
{
    if bits < 0x800 {
        bits as i16
    } else {
        bits as i16 - 0x1000
    }
}

/// The low twelve bits as a signed number.
pub fn low_twelve(number: u64) -> i16
    ensures value { result ≡ low_twelve number }
    ensures fits { FitsBits 11 result }
{
    signed_12((number % 0x1000) as u32)
}

pub fn i_offset(word: u32) -> i16
    ensures fits { FitsBits 11 result }
    ensures value { cast_unsigned w16 result % 2 ^ 12 ≡ word / 2 ^ 20 }
    ensures exact { result ≡ signed 11 (word / 2 ^ 25 * 32 + word / 2 ^ 20 % 32) }
{
    signed_12(word >> 20)
}

pub fn s_offset(word: u32) -> i16
    ensures fits { FitsBits 11 result }
    ensures value { cast_unsigned w16 result % 2 ^ 12 ≡ word / 2 ^ 25 * 2 ^ 5 + word / 2 ^ 7 % 2 ^ 5 }
    ensures exact { result ≡ signed 11 (word / 2 ^ 25 * 32 + word / 2 ^ 7 % 32) }
{
    signed_12((word >> 25 << 5) | ((word >> 7) & 0x1f))
}

/// Bit 31, bit 7, bits 30 to 25, bits 11 to 8, then a 0.
pub fn b_offset(word: u32) -> i16
    ensures fits { FitsBits 12 result }
    ensures even { IsEven result }
    ensures value { cast_unsigned w16 result % 2 ^ 13
        ≡ word / 2 ^ 31 * 2 ^ 12 + word / 2 ^ 7 % 2 * 2 ^ 11 + word / 2 ^ 25 % 2 ^ 6 * 2 ^ 5 + word / 2 ^ 8 % 2 ^ 4 * 2 }
    ensures exact { result ≡ signed 12 (b_bits (word / 2 ^ 25) (word / 2 ^ 7 % 32)) }
{
    let low = ((word >> 7) & 1) * 0x800 + ((word >> 25) & 0x3f) * 0x20 + ((word >> 8) & 0xf) * 2;
    if word < 0x8000_0000 {
        low as i16
    } else {
        low as i16 - 0x1000
    }
}

/// Bit 31, bits 19 to 12, bit 20, bits 30 to 21, then a 0.
pub fn j_offset(word: u32) -> i32
    ensures fits { FitsBits 20 result }
    ensures even { IsEven result }
    ensures value { cast_unsigned w32 result % 2 ^ 21
        ≡ word / 2 ^ 31 * 2 ^ 20 + word / 2 ^ 12 % 2 ^ 8 * 2 ^ 12 + word / 2 ^ 20 % 2 * 2 ^ 11 + word / 2 ^ 21 % 2 ^ 10 * 2 }
    ensures exact { result ≡ signed 20 (j_bits (word / 2 ^ 25) (word / 2 ^ 20 % 32) (word / 2 ^ 15 % 32) (word / 2 ^ 12 % 8)) }
{
    let low = ((word >> 12) & 0xff) * 0x1000
        + ((word >> 20) & 1) * 0x800
        + ((word >> 21) & 0x3ff) * 2;
    if word < 0x8000_0000 {
        low as i32
    } else {
        low as i32 - 0x10_0000
    }
}
