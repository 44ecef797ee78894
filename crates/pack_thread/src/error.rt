//! Why bytes give no thread.

ghost use Rattle.std.specs.Prelude.{◌≡◌};

use basics::NoMemory;
use std::alloc::AllocError;
use thiserror::Error;

/// Why bytes give no thread.
#[derive(Clone, Copy, Debug, PartialEq, Eq, Error)]
pub enum UnpackError {
    /// They are no packed thread: the bytes end inside a field, or the first field at fault starts here, or the text ends
    /// here and bytes follow.
    #[error("no packed thread: offset {offset}")]
    BadImage { offset: u64 },
    /// There was not enough memory.
    #[error("out of memory")]
    NoMemory,
}

impl From<NoMemory> for UnpackError {
    ghost use Rattle.pack_thread.specs.declared.error.UnpackError.TheVariants as error;

    ghost from_gives = { λ _ e. e ≡ error.NoMemory };

    fn from(_error: NoMemory) -> UnpackError {
        UnpackError::NoMemory
    }
}
