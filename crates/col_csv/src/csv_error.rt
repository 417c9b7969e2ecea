//! Why a table isn't exchanged with CSV.
ghost use Rattle.std.specs.Prelude.{◌≡◌};
ghost use Rattle.col_csv.specs.Refused.{code_of, refusal_of};

use col_common::ColumnarError;
use thiserror::Error;

/// Why a call that reads or writes CSV refuses. A call says in its contract which of these it may
/// answer.
#[derive(Clone, Copy, Debug, PartialEq, Eq, Error)]
pub enum CsvError {
    #[error("out of memory")]
    OutOfMemory,
    #[error("read failed")]
    ReadFault,
    #[error("write failed")]
    WriteFault,
    #[error("invalid data")]
    InvalidData,
    #[error("text too long")]
    LongCsv,
    #[error("column has several values in a row")]
    NotFlat,
    #[error("bad csv")]
    BadCsv,
}

impl CsvError {
    /// The number by which a program tells the refusal: 3 to 6, or 21 to 23.
    pub fn code(self) -> u8
        ensures { result ≡ code_of self }
    {
        match self {
            CsvError::OutOfMemory => 3,
            CsvError::ReadFault => 4,
            CsvError::WriteFault => 5,
            CsvError::InvalidData => 6,
            CsvError::LongCsv => 21,
            CsvError::NotFlat => 22,
            CsvError::BadCsv => 23,
        }
    }
}

impl From<ColumnarError> for CsvError {
    ghost from_gives = { λ e refusal. refusal ≡ refusal_of e };

    fn from(error: ColumnarError) -> Self {
        match error {
            ColumnarError::OutOfMemory => CsvError::OutOfMemory,
            ColumnarError::ReadFault => CsvError::ReadFault,
            ColumnarError::WriteFault => CsvError::WriteFault,
            _ => CsvError::InvalidData,
        }
    }
}
