//! Statements, and what is made of what stands in a row's slots.

ghost use Rattle.std.specs.Prelude.{◌≡◌, ℕ, ◌+◌, ◌%◌, ◌^◌, ◌<◌, ◌≤◌, length, map, IfOk, IfSome};
ghost use Rattle.std.specs.Option.{option_map};
ghost use Rattle.rv_inst.specs.Table.{Fits, shift_end};
ghost use Rattle.asm_words.specs.Tokens.{token_of, spans};
ghost use Rattle.asm_text.specs.Statements.{value_seen, value_of, values_of, statement_seen, fields_seen, filled_seen, reg, made, IsSound};

use asm_words::{Token, bits_of, number_of};
use basics::NoMemory;
use rv_inst::{BranchOp, ImmOp, Inst, LoadOp, Reg, RegOp, ShiftOp, StoreOp, low_twelve};
use std::alloc::Global;

/// How many bytes a value has.
#[derive(Clone, Copy)]
pub enum Width {
    Byte,
    Word,
    Dword,
}

/// A value of a directive.
#[derive(Clone, Copy)]
pub enum Value<'s> {
    /// A number's low 64 bits.
    Number(u64),
    /// The address of a label.
    Label(&'s [u8]),
}

/// A statement.
#[derive(Drop)]
pub enum Statement<'s> {
    /// An instruction that names no label.
    Plain(Inst),
    /// A branch to a label.
    Branch {
        op: BranchOp,
        rs1: Reg,
        rs2: Reg,
        label: &'s [u8],
    },
    /// A jump to a label.
    Jump {
        rd: Reg,
        label: &'s [u8],
    },
    /// A number into a register.
    LoadNumber {
        rd: Reg,
        number: u64,
    },
    /// A label's address into a register.
    LoadAddress {
        rd: Reg,
        label: &'s [u8],
    },
    /// Values of one width.
    Values {
        width: Width,
        values: Vec<Value<'s>>,
    },
    /// Bytes as they stand.
    Bytes(Vec<u8>),
    /// Zeros up to a multiple of a power of two.
    Align(u8),
    /// A service that starts at a label.
    Service {
        number: u8,
        label: &'s [u8],
    },
    /// A directive that does nothing.
    Nothing,
}

/// What is made of the fields of a row.
#[derive(Clone, Copy)]
pub enum Make {
    Lui,
    Auipc,
    Jal,
    /// JAL that links to x1.
    Call,
    Jalr,
    /// JALR that links to x1, with no offset.
    CallBy,
    /// JALR to x1, with no offset and no link.
    Return,
    Branch(BranchOp),
    Load(LoadOp),
    Store(StoreOp),
    Imm(ImmOp),
    /// The same with a number of the row's own.
    ImmBy(ImmOp, u64),
    Shift(ShiftOp),
    Op(RegOp),
    Fence,
    Ecall,
    Ebreak,
    LoadNumber,
    LoadAddress,
    Values(Width),
    Bytes,
    Align,
    Service,
    Nothing,
}

/// What stands in the slots of a row.
#[derive(Clone, Copy)]
pub struct Fields<'s, 't> {
    pub rd: u8,
    pub rs1: u8,
    pub rs2: u8,
    pub number: u64,
    pub label: &'s [u8],
    pub text: &'t [u8],
    pub values: &'t [Token<'s>],
}

/// A row whose slots are filled.
#[derive(Clone, Copy)]
pub struct Filled<'s, 't> {
    pub make: Make,
    pub fields: Fields<'s, 't>,
}

/// The register of a number of five bits.
fn reg(number: u8) -> Reg
    ensures { result ≡ reg number }
{
    Reg::new(number % 32)
}

/// The low twenty bits.
fn low20(number: u64) -> u32
    ensures { result ≡ number % 2 ^ 20 }
{
    (number % 0x10_0000) as u32
}

/// The amount of a shift.
fn amount(op: ShiftOp, number: u64) -> u8
    ensures value { result ≡ number % shift_end op }
    ensures below { result < shift_end op }
{
    match op {
        ShiftOp::Slli | ShiftOp::Srli | ShiftOp::Srai => (number % 64) as u8,
        ShiftOp::Slliw | ShiftOp::Srliw | ShiftOp::Sraiw => (number % 32) as u8,
    }
}

/// A word as a value.
fn value_of<'s>(word: &'s [u8]) -> Value<'s>
    ensures { value_seen result ≡ value_of word.now }
{
    match number_of(word) {
        Some(number) => Value::Number(bits_of(number)),
        None => Value::Label(word),
    }
}

/// The values of the words among the tokens.
fn values_of<'s>(alloc: Global, tokens: &[Token<'s>]) -> Result<Vec<Value<'s>>, NoMemory>
    ensures { IfOk result (λ v. map value_seen v.items ≡ values_of (map token_of tokens.now)) }
{
    let mut values = Vec::new(alloc);
    for token in tokens {
        if let Token::Word(word) = token {
            values.push(value_of(word))?;
        }
    }
    Ok(values)
}

/// The statement that a filled row is.
pub fn made<'s>(alloc: Global, filled: Filled<'s, '_>) -> Result<Statement<'s>, NoMemory>
    ensures { IfOk result (λ s. statement_seen s ≡ made filled.entry.make (fields_seen filled.entry.fields)) }
{
    let fields = filled.fields;
    let rd = reg(fields.rd);
    let rs1 = reg(fields.rs1);
    let rs2 = reg(fields.rs2);
    let label = fields.label;
    let number = fields.number;
    Ok(match filled.make {
        Make::Lui => Statement::Plain(Inst::Lui {
            rd,
            imm: low20(number),
        }),
        Make::Auipc => Statement::Plain(Inst::Auipc {
            rd,
            imm: low20(number),
        }),
        Make::Jal => Statement::Jump { rd, label },
        Make::Call => Statement::Jump { rd: reg(1), label },
        Make::Jalr => Statement::Plain(Inst::Jalr {
            rd,
            rs1,
            offset: low_twelve(number),
        }),
        Make::CallBy => Statement::Plain(Inst::Jalr {
            rd: reg(1),
            rs1,
            offset: low_twelve(0),
        }),
        Make::Return => Statement::Plain(Inst::Jalr {
            rd: reg(0),
            rs1: reg(1),
            offset: low_twelve(0),
        }),
        Make::Branch(op) => Statement::Branch {
            op,
            rs1,
            rs2,
            label,
        },
        Make::Load(op) => Statement::Plain(Inst::Load {
            op,
            rd,
            rs1,
            offset: low_twelve(number),
        }),
        Make::Store(op) => Statement::Plain(Inst::Store {
            op,
            rs1,
            rs2,
            offset: low_twelve(number),
        }),
        Make::Imm(op) => Statement::Plain(Inst::Imm {
            op,
            rd,
            rs1,
            imm: low_twelve(number),
        }),
        Make::ImmBy(op, number) => Statement::Plain(Inst::Imm {
            op,
            rd,
            rs1,
            imm: low_twelve(number),
        }),
        Make::Shift(op) => Statement::Plain(Inst::Shift {
            op,
            rd,
            rs1,
            amount: amount(op, number),
        }),
        Make::Op(op) => Statement::Plain(Inst::Op { op, rd, rs1, rs2 }),
        Make::Fence => Statement::Plain(Inst::Fence {
            rd: reg(0),
            rs1: reg(0),
            bits: 0x0ff,
        }),
        Make::Ecall => Statement::Plain(Inst::Ecall),
        Make::Ebreak => Statement::Plain(Inst::Ebreak),
        Make::LoadNumber => Statement::LoadNumber { rd, number },
        Make::LoadAddress => Statement::LoadAddress { rd, label },
        Make::Values(width) => Statement::Values {
            width,
            values: values_of(alloc, fields.values)?,
        },
        Make::Bytes => Statement::Bytes(fields.text.to_vec(alloc)?),
        Make::Align => Statement::Align((number % 16) as u8),
        Make::Service => Statement::Service {
            number: (number % 256) as u8,
            label,
        },
        Make::Nothing => Statement::Nothing,
    })
}
