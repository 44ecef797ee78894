//! The table of RV64IM: a row for each instruction, as the RISC-V manual lists them. What goes by a row is written by these macros:
//! the fields of a word and the operation of such fields, the name in a listing, and the forms of the assembler.

/// Hands the row of an instruction that is no operation among several of its kind to the macro of that name.
/// A row is its name, and what its word has in the places of opcode and funct3; where nothing else is free, its whole word.
#[macro_export]
macro_rules! row_of {
    (Lui $to:ident) => {
        $to!(b"lui" 0x37 0)
    };
    (Auipc $to:ident) => {
        $to!(b"auipc" 0x17 0)
    };
    (Jal $to:ident) => {
        $to!(b"jal" 0x6f 0)
    };
    (Jalr $to:ident) => {
        $to!(b"jalr" 0x67 0)
    };
    (Fence $to:ident) => {
        $to!(b"fence" 0x0f 0)
    };
    (Ecall $to:ident) => {
        $to!(b"ecall" 0x0000_0073)
    };
    (Ebreak $to:ident) => {
        $to!(b"ebreak" 0x0010_0073)
    };
}

/// The name in a row.
#[macro_export]
macro_rules! row_name {
    ($name:literal $($fields:literal)*) => {
        $name
    };
}

/// What a row has in the place of opcode.
#[macro_export]
macro_rules! row_opcode {
    ($name:literal $opcode:literal $funct3:literal) => {
        $opcode
    };
}

/// What a row has in the place of funct3.
#[macro_export]
macro_rules! row_funct3 {
    ($name:literal $opcode:literal $funct3:literal) => {
        $funct3
    };
}

/// The whole word in a row.
#[macro_export]
macro_rules! row_word {
    ($name:literal $word:literal) => {
        $word
    };
}

/// Hands the rows of all operations to the macro of that name, behind what is given it.
/// A row is the operation, its name, and what its word has in the places of opcode, funct3 and funct7.
#[macro_export]
macro_rules! all_rows {
    ($to:ident $given:tt) => {
        $to! {
            $given
            BranchOp {
                Beq b"beq" 0x63 0 0x00,
                Bne b"bne" 0x63 1 0x00,
                Blt b"blt" 0x63 4 0x00,
                Bge b"bge" 0x63 5 0x00,
                Bltu b"bltu" 0x63 6 0x00,
                Bgeu b"bgeu" 0x63 7 0x00,
            }
            LoadOp {
                Lb b"lb" 0x03 0 0x00,
                Lh b"lh" 0x03 1 0x00,
                Lw b"lw" 0x03 2 0x00,
                Ld b"ld" 0x03 3 0x00,
                Lbu b"lbu" 0x03 4 0x00,
                Lhu b"lhu" 0x03 5 0x00,
                Lwu b"lwu" 0x03 6 0x00,
            }
            StoreOp {
                Sb b"sb" 0x23 0 0x00,
                Sh b"sh" 0x23 1 0x00,
                Sw b"sw" 0x23 2 0x00,
                Sd b"sd" 0x23 3 0x00,
            }
            ImmOp {
                Addi b"addi" 0x13 0 0x00,
                Slti b"slti" 0x13 2 0x00,
                Sltiu b"sltiu" 0x13 3 0x00,
                Xori b"xori" 0x13 4 0x00,
                Ori b"ori" 0x13 6 0x00,
                Andi b"andi" 0x13 7 0x00,
                Addiw b"addiw" 0x1b 0 0x00,
            }
            ShiftOp {
                Slli b"slli" 0x13 1 0x00,
                Srli b"srli" 0x13 5 0x00,
                Srai b"srai" 0x13 5 0x20,
                Slliw b"slliw" 0x1b 1 0x00,
                Srliw b"srliw" 0x1b 5 0x00,
                Sraiw b"sraiw" 0x1b 5 0x20,
            }
            RegOp {
                Add b"add" 0x33 0 0x00,
                Sub b"sub" 0x33 0 0x20,
                Sll b"sll" 0x33 1 0x00,
                Slt b"slt" 0x33 2 0x00,
                Sltu b"sltu" 0x33 3 0x00,
                Xor b"xor" 0x33 4 0x00,
                Srl b"srl" 0x33 5 0x00,
                Sra b"sra" 0x33 5 0x20,
                Or b"or" 0x33 6 0x00,
                And b"and" 0x33 7 0x00,
                Addw b"addw" 0x3b 0 0x00,
                Subw b"subw" 0x3b 0 0x20,
                Sllw b"sllw" 0x3b 1 0x00,
                Srlw b"srlw" 0x3b 5 0x00,
                Sraw b"sraw" 0x3b 5 0x20,
                Mul b"mul" 0x33 0 0x01,
                Mulh b"mulh" 0x33 1 0x01,
                Mulhsu b"mulhsu" 0x33 2 0x01,
                Mulhu b"mulhu" 0x33 3 0x01,
                Div b"div" 0x33 4 0x01,
                Divu b"divu" 0x33 5 0x01,
                Rem b"rem" 0x33 6 0x01,
                Remu b"remu" 0x33 7 0x01,
                Mulw b"mulw" 0x3b 0 0x01,
                Divw b"divw" 0x3b 4 0x01,
                Divuw b"divuw" 0x3b 5 0x01,
                Remw b"remw" 0x3b 6 0x01,
                Remuw b"remuw" 0x3b 7 0x01,
            }
        }
    };
}

/// Hands the rows of one kind of operation, as `rows_of!(LoadOp by_funct3 (funct3))`, to the macro of that name.
#[macro_export]
macro_rules! rows_of {
    ($kind:ident $to:ident $given:tt) => {
        $crate::all_rows!(rows_of ($kind $to $given))
    };
    ((BranchOp $to:ident $given:tt) BranchOp { $($row:tt)* } $($other:tt)*) => {
        $to!(BranchOp $given $($row)*)
    };
    ((LoadOp $to:ident $given:tt) BranchOp $b:tt LoadOp { $($row:tt)* } $($other:tt)*) => {
        $to!(LoadOp $given $($row)*)
    };
    ((StoreOp $to:ident $given:tt) BranchOp $b:tt LoadOp $l:tt StoreOp { $($row:tt)* } $($other:tt)*) => {
        $to!(StoreOp $given $($row)*)
    };
    ((ImmOp $to:ident $given:tt) BranchOp $b:tt LoadOp $l:tt StoreOp $s:tt ImmOp { $($row:tt)* } $($other:tt)*) => {
        $to!(ImmOp $given $($row)*)
    };
    ((ShiftOp $to:ident $given:tt) BranchOp $b:tt LoadOp $l:tt StoreOp $s:tt ImmOp $i:tt ShiftOp { $($row:tt)* } $($other:tt)*) => {
        $to!(ShiftOp $given $($row)*)
    };
    ((RegOp $to:ident $given:tt) BranchOp $b:tt LoadOp $l:tt StoreOp $s:tt ImmOp $i:tt ShiftOp $h:tt RegOp { $($row:tt)* }) => {
        $to!(RegOp $given $($row)*)
    };
}
