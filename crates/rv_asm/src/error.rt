//! Why a source has no image.

ghost use Rattle.std.specs.Prelude.{◌≡◌};

use asm_text::What;
use basics::NoMemory;
use std::alloc::AllocError;

/// Why a source has no image.
#[derive(Clone, Copy, Debug, PartialEq, Eq)]
pub enum AsmError {
    /// A line that isn't of the grammar, or an instruction or a service at no multiple of 4.
    BadLine { line: u32, what: What },
    /// A label or a service that an earlier line gives.
    Twice { line: u32 },
    /// A label that no line gives.
    Unknown { line: u32 },
    /// A branch or a jump that doesn't reach its label.
    FarTarget { line: u32 },
    /// No label `main` at a multiple of 4.
    NoMain,
    /// A source or an image that is longer than the limit, 1,048,576 bytes.
    TooLong,
    /// There was not enough memory.
    NoMemory,
}

impl From<NoMemory> for AsmError {
    ghost use Rattle.rv_asm.specs.declared.error.AsmError.TheVariants as error;

    ghost from_gives = { λ _ e. e ≡ error.NoMemory };

    fn from(_error: NoMemory) -> AsmError {
        AsmError::NoMemory
    }
}

impl From<AllocError> for AsmError {
    ghost use Rattle.rv_asm.specs.declared.error.AsmError.TheVariants as error;

    ghost from_gives = { λ _ e. e ≡ error.NoMemory };

    fn from(_error: AllocError) -> AsmError {
        AsmError::NoMemory
    }
}
