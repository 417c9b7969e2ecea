//! Why a line isn't read as a document.
ghost use Rattle.std.specs.Prelude.{◌≡◌};
ghost use Rattle.col_documents.specs.declared.refusal.DocumentError.TheVariants as errors;

use std::alloc::{AllocError, AllocFailed};

/// Why a value, or a line, isn't taken.
#[derive(Clone, Copy, Debug, PartialEq, Eq)]
pub enum Reason {
    /// The line is no JSON text.
    Json,
    /// The line is no object.
    Object,
    /// The name has a zero byte, or isn't UTF-8.
    Name,
    /// The value stands in an array, and is an array or an object.
    Nested,
    /// The number has more digits behind its point than its form allows, or an exponent.
    Fraction,
    /// The number, at its scale, is neither of i64 nor of u64; of milliseconds, not as nanoseconds
    /// of i64.
    TooLarge,
    /// The value isn't of its form.
    Form,
    /// The text isn't UTF-8.
    Text,
    /// The record has more or fewer fields than the first one.
    Width,
}

/// The path of a field whose value isn't taken, with the reason; the path is empty where the line
/// is refused as a whole.
#[derive(Debug, Drop)]
pub struct Refusal {
    pub path: String,
    pub reason: Reason,
}

/// Why a line isn't read.
#[derive(Debug, Drop)]
pub enum DocumentError {
    OutOfMemory,
    Refused(Refusal),
}

impl From<AllocError> for DocumentError {
    ghost from_gives = { λ _ e. e ≡ errors.OutOfMemory };

    fn from(_: AllocError) -> Self {
        DocumentError::OutOfMemory
    }
}

impl<T: Drop> From<AllocFailed<T>> for DocumentError {
    ghost from_gives = { λ _ e. e ≡ errors.OutOfMemory };

    fn from(_: AllocFailed<T>) -> Self {
        DocumentError::OutOfMemory
    }
}

/// Why a value isn't read.
#[derive(Clone, Copy, Debug)]
pub enum ValueError {
    OutOfMemory,
    Refused(Reason),
}

impl From<Reason> for ValueError {
    ghost use Rattle.col_documents.specs.declared.refusal.ValueError.TheVariants as values;

    ghost from_gives = { λ reason e. e ≡ values.Refused reason };

    fn from(reason: Reason) -> Self {
        ValueError::Refused(reason)
    }
}

impl From<AllocError> for ValueError {
    ghost use Rattle.col_documents.specs.declared.refusal.ValueError.TheVariants as values;

    ghost from_gives = { λ _ e. e ≡ values.OutOfMemory };

    fn from(_: AllocError) -> Self {
        ValueError::OutOfMemory
    }
}

impl<T: Drop> From<AllocFailed<T>> for ValueError {
    ghost use Rattle.col_documents.specs.declared.refusal.ValueError.TheVariants as values;

    ghost from_gives = { λ _ e. e ≡ values.OutOfMemory };

    fn from(_: AllocFailed<T>) -> Self {
        ValueError::OutOfMemory
    }
}
