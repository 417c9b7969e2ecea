//! How the program ends.

use crate::filter::FilterError;
use col_common::ColumnarError;
use col_load::LoadError;
use std::alloc::AllocError;

/// Why the program ends with another status than 0, with what is said of it.
#[derive(Drop)]
pub struct Ending {
    pub status: u8,
    pub text: Option<String>,
}

impl From<ColumnarError> for Ending {
    fn from(error: ColumnarError) -> Self {
        Ending {
            status: error.code(),
            text: None,
        }
    }
}

impl From<AllocError> for Ending {
    fn from(_: AllocError) -> Self {
        Ending::from(ColumnarError::OutOfMemory)
    }
}

impl From<LoadError> for Ending {
    fn from(error: LoadError) -> Self {
        match error {
            LoadError::OutOfMemory => Ending::from(ColumnarError::OutOfMemory),
            LoadError::BadLine { .. } => Ending {
                status: BAD_LINE,
                text: None,
            },
            LoadError::TooMany => Ending::from(ColumnarError::TooLarge),
            LoadError::Columnar(error) => Ending::from(error),
        }
    }
}

impl From<FilterError> for Ending {
    fn from(error: FilterError) -> Self {
        match error {
            FilterError::OutOfMemory => Ending::from(ColumnarError::OutOfMemory),
            FilterError::Shape(text) => ended_with(BAD_WORDS, text),
        }
    }
}

/// The status of a line that is no document.
pub const BAD_LINE: u8 = 20;

/// The status of words that aren't taken.
pub const BAD_WORDS: u8 = 2;

/// What a status says beside its words.
pub fn ended_with(status: u8, text: String) -> Ending {
    Ending {
        status,
        text: Some(text),
    }
}
