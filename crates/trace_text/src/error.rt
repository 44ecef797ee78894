//! Why a text isn't read.

use std::alloc::AllocError;
use thiserror::Error;

/// Why a text isn't read.
#[derive(Clone, Copy, Debug, Error)]
pub enum TextError {
    /// This line, counted from 1, is the first that isn't of the grammar.
    #[error("bad line")]
    BadLine { line: u32 },
    /// There was not enough memory.
    #[error("out of memory")]
    NoMemory,
}

impl From<AllocError> for TextError {
    ghost use Rattle.std.specs.Prelude.{◌≡◌};
    ghost use Rattle.trace_text.specs.declared.error.TextError.TheVariants as error;

    ghost from_gives = { λ _ e. e ≡ error.NoMemory };

    fn from(_error: AllocError) -> TextError {
        TextError::NoMemory
    }
}
