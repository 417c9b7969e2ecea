//! Why lines aren't loaded.
ghost use Rattle.std.specs.Prelude.{◌≡◌};
ghost use Rattle.col_load.specs.declared.load_error.LoadError.TheVariants as errors;

use col_common::ColumnarError;
use col_documents::Refusal;
use std::alloc::{AllocError, AllocFailed};

/// Why lines aren't loaded.
#[derive(Debug, Drop)]
pub enum LoadError {
    OutOfMemory,
    /// The line with a number, from 1 on, is no document.
    BadLine { number: u64, refusal: Refusal },
    /// There are more lines than 64 bits count, or more documents than a file may have.
    TooMany,
    /// The documents have no table, or the file can't be written.
    Columnar(ColumnarError),
}

impl From<ColumnarError> for LoadError {
    ghost use Rattle.col_load.specs.Files.{error_of};

    ghost from_gives = { λ error e. e ≡ error_of error };

    fn from(error: ColumnarError) -> Self {
        match error {
            ColumnarError::OutOfMemory => LoadError::OutOfMemory,
            _ => LoadError::Columnar(error),
        }
    }
}

impl From<AllocError> for LoadError {
    ghost from_gives = { λ _ e. e ≡ errors.OutOfMemory };

    fn from(_: AllocError) -> Self {
        LoadError::OutOfMemory
    }
}

impl<T: Drop> From<AllocFailed<T>> for LoadError {
    ghost from_gives = { λ _ e. e ≡ errors.OutOfMemory };

    fn from(_: AllocFailed<T>) -> Self {
        LoadError::OutOfMemory
    }
}
