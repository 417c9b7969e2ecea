//! Why a value is no query.
ghost use Rattle.std.specs.Prelude.{◌≡◌};
ghost use Rattle.col_questions.specs.declared.query_error.QueryError.TheVariants as refusals;

use std::alloc::{AllocError, AllocFailed};
use thiserror::Error;

/// Why a value isn't read as a query.
#[derive(Clone, Copy, Debug, PartialEq, Eq, Error)]
pub enum QueryError {
    #[error("out of memory")]
    Memory,
    #[error("not a query")]
    Shape,
}

impl From<AllocError> for QueryError {
    ghost from_gives = { λ _ e. e ≡ refusals.Memory };

    fn from(_: AllocError) -> Self {
        QueryError::Memory
    }
}

impl<T: Drop> From<AllocFailed<T>> for QueryError {
    ghost from_gives = { λ _ e. e ≡ refusals.Memory };

    fn from(_: AllocFailed<T>) -> Self {
        QueryError::Memory
    }
}
