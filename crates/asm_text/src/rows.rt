//! The table of statements: a row for each form of each name.

ghost use Rattle.std.specs.Prelude.{◌≡◌, map};
ghost use Rattle.asm_text.specs.Rows.{row_of, instructions, pseudo_instructions, directives};

use crate::slots::Slot;
use crate::statements::{Make, Width};
use rv_inst::{BranchOp, ImmOp, LoadOp, RegOp, ShiftOp, StoreOp, all_rows, row_name, row_of};

/// A form of a statement.
#[derive(Clone, Copy)]
pub struct Row {
    pub name: &'static [u8],
    /// What its operands are.
    pub slots: &'static [Slot],
    /// What is made of them.
    pub make: Make,
}

const COMMA: Slot = Slot::Mark(b',');

const LEFT: Slot = Slot::Mark(b'(');

const RIGHT: Slot = Slot::Mark(b')');

/// A number of twelve bits in two's complement.
const TWELVE_BITS: Slot = Slot::Number(2048, 2047);

const NO_OPERANDS: &[Slot] = &[];

const THREE_REGISTERS: &[Slot] = &[Slot::Rd, COMMA, Slot::Rs1, COMMA, Slot::Rs2];

const IMMEDIATE: &[Slot] = &[Slot::Rd, COMMA, Slot::Rs1, COMMA, TWELVE_BITS];

const AMOUNT: &[Slot] = &[Slot::Rd, COMMA, Slot::Rs1, COMMA, Slot::Number(0, 63)];

const AMOUNT_W: &[Slot] = &[Slot::Rd, COMMA, Slot::Rs1, COMMA, Slot::Number(0, 31)];

const UPPER: &[Slot] = &[Slot::Rd, COMMA, Slot::Number(0, 0xf_ffff)];

const FROM_MEMORY: &[Slot] = &[Slot::Rd, COMMA, TWELVE_BITS, LEFT, Slot::Rs1, RIGHT];

const TO_MEMORY: &[Slot] = &[Slot::Rs2, COMMA, TWELVE_BITS, LEFT, Slot::Rs1, RIGHT];

const COMPARE: &[Slot] = &[Slot::Rs1, COMMA, Slot::Rs2, COMMA, Slot::Label];

const LINK: &[Slot] = &[Slot::Rd, COMMA, Slot::Label];

const TARGET: &[Slot] = &[Slot::Label];

const SOURCE: &[Slot] = &[Slot::Rs1];

const TO_FROM: &[Slot] = &[Slot::Rd, COMMA, Slot::Rs1];

const TO_FROM_SECOND: &[Slot] = &[Slot::Rd, COMMA, Slot::Rs2];

const WITH_ZERO: &[Slot] = &[Slot::Rs1, COMMA, Slot::Label];

const ZERO_WITH: &[Slot] = &[Slot::Rs2, COMMA, Slot::Label];

const COMPARE_BACK: &[Slot] = &[Slot::Rs2, COMMA, Slot::Rs1, COMMA, Slot::Label];

const CONSTANT: &[Slot] = &[
    Slot::Rd,
    COMMA,
    Slot::Number(0x8000_0000_0000_0000, u64::MAX),
];

const BYTE_VALUES: &[Slot] = &[Slot::Values(128, 255, false)];

const WORD_VALUES: &[Slot] = &[Slot::Values(0x8000_0000, 0xffff_ffff, false)];

const DWORD_VALUES: &[Slot] = &[Slot::Values(0x8000_0000_0000_0000, u64::MAX, true)];

const TEXT: &[Slot] = &[Slot::Text];

const POWER: &[Slot] = &[Slot::Number(0, 12)];

const SERVICE: &[Slot] = &[Slot::Number(0, 255), COMMA, Slot::Label];

macro_rules! row {
    ($name:expr, $slots:expr, $make:expr) => {
        Row {
            name: $name,
            slots: $slots,
            make: $make,
        }
    };
}

/// What a shift's operands are, by its opcode.
macro_rules! amount {
    (0x13) => {
        AMOUNT
    };
    (0x1b) => {
        AMOUNT_W
    };
}

/// The forms of all operations, each by its own name, and of the other instructions.
macro_rules! forms {
    (
        ()
        BranchOp { $($branch:ident $branch_name:literal $b1:literal $b2:literal $b3:literal,)* }
        LoadOp { $($load:ident $load_name:literal $l1:literal $l2:literal $l3:literal,)* }
        StoreOp { $($store:ident $store_name:literal $s1:literal $s2:literal $s3:literal,)* }
        ImmOp { $($imm:ident $imm_name:literal $i1:literal $i2:literal $i3:literal,)* }
        ShiftOp { $($shift:ident $shift_name:literal $opcode:tt $h2:literal $h3:literal,)* }
        RegOp { $($reg:ident $reg_name:literal $r1:literal $r2:literal $r3:literal,)* }
    ) => {
        [
            $(row!($reg_name, THREE_REGISTERS, Make::Op(RegOp::$reg)),)*
            $(row!($imm_name, IMMEDIATE, Make::Imm(ImmOp::$imm)),)*
            $(row!($shift_name, amount!($opcode), Make::Shift(ShiftOp::$shift)),)*
            row!(row_of!(Lui row_name), UPPER, Make::Lui),
            row!(row_of!(Auipc row_name), UPPER, Make::Auipc),
            $(row!($load_name, FROM_MEMORY, Make::Load(LoadOp::$load)),)*
            $(row!($store_name, TO_MEMORY, Make::Store(StoreOp::$store)),)*
            $(row!($branch_name, COMPARE, Make::Branch(BranchOp::$branch)),)*
            row!(row_of!(Jal row_name), LINK, Make::Jal),
            row!(row_of!(Jal row_name), TARGET, Make::Call),
            row!(row_of!(Jalr row_name), FROM_MEMORY, Make::Jalr),
            row!(row_of!(Jalr row_name), SOURCE, Make::CallBy),
            row!(row_of!(Fence row_name), NO_OPERANDS, Make::Fence),
            row!(row_of!(Ecall row_name), NO_OPERANDS, Make::Ecall),
            row!(row_of!(Ebreak row_name), NO_OPERANDS, Make::Ebreak),
        ]
    };
}

static INSTRUCTIONS: [Row; 67] = all_rows!(forms());

/// RV64IM, each instruction by its own name.
#[tactic(auto, unfolding(crate::specs::Rows::instructions))]
pub fn instructions() -> &'static [Row]
    ensures { map row_of result.now ≡ instructions }
{
    &INSTRUCTIONS
}

static PSEUDO_INSTRUCTIONS: [Row; 26] = [
    row!(b"nop", NO_OPERANDS, Make::Imm(ImmOp::Addi)),
    row!(b"mv", TO_FROM, Make::Imm(ImmOp::Addi)),
    row!(b"not", TO_FROM, Make::ImmBy(ImmOp::Xori, 0xfff)),
    row!(b"neg", TO_FROM_SECOND, Make::Op(RegOp::Sub)),
    row!(b"negw", TO_FROM_SECOND, Make::Op(RegOp::Subw)),
    row!(b"sext.w", TO_FROM, Make::Imm(ImmOp::Addiw)),
    row!(b"seqz", TO_FROM, Make::ImmBy(ImmOp::Sltiu, 1)),
    row!(b"snez", TO_FROM_SECOND, Make::Op(RegOp::Sltu)),
    row!(b"sltz", TO_FROM, Make::Op(RegOp::Slt)),
    row!(b"sgtz", TO_FROM_SECOND, Make::Op(RegOp::Slt)),
    row!(b"beqz", WITH_ZERO, Make::Branch(BranchOp::Beq)),
    row!(b"bnez", WITH_ZERO, Make::Branch(BranchOp::Bne)),
    row!(b"bgez", WITH_ZERO, Make::Branch(BranchOp::Bge)),
    row!(b"bltz", WITH_ZERO, Make::Branch(BranchOp::Blt)),
    row!(b"blez", ZERO_WITH, Make::Branch(BranchOp::Bge)),
    row!(b"bgtz", ZERO_WITH, Make::Branch(BranchOp::Blt)),
    row!(b"bgt", COMPARE_BACK, Make::Branch(BranchOp::Blt)),
    row!(b"ble", COMPARE_BACK, Make::Branch(BranchOp::Bge)),
    row!(b"bgtu", COMPARE_BACK, Make::Branch(BranchOp::Bltu)),
    row!(b"bleu", COMPARE_BACK, Make::Branch(BranchOp::Bgeu)),
    row!(b"j", TARGET, Make::Jal),
    row!(b"call", TARGET, Make::Call),
    row!(b"jr", SOURCE, Make::Jalr),
    row!(b"ret", NO_OPERANDS, Make::Return),
    row!(b"la", LINK, Make::LoadAddress),
    row!(b"li", CONSTANT, Make::LoadNumber),
];

/// The pseudo instructions.
#[tactic(auto, unfolding(crate::specs::Rows::pseudo_instructions))]
pub fn pseudo_instructions() -> &'static [Row]
    ensures { map row_of result.now ≡ pseudo_instructions }
{
    &PSEUDO_INSTRUCTIONS
}

static DIRECTIVES: [Row; 8] = [
    row!(b".byte", BYTE_VALUES, Make::Values(Width::Byte)),
    row!(b".word", WORD_VALUES, Make::Values(Width::Word)),
    row!(b".dword", DWORD_VALUES, Make::Values(Width::Dword)),
    row!(b".ascii", TEXT, Make::Bytes),
    row!(b".align", POWER, Make::Align),
    row!(b".service", SERVICE, Make::Service),
    row!(b".text", NO_OPERANDS, Make::Nothing),
    row!(b".globl", TARGET, Make::Nothing),
];

/// The directives.
#[tactic(auto, unfolding(crate::specs::Rows::directives))]
pub fn directives() -> &'static [Row]
    ensures { map row_of result.now ≡ directives }
{
    &DIRECTIVES
}
