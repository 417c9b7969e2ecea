//! The bytes that part the names of nested values in a column's name.

/// Stands between two names of a path.
pub const JSON_PATH_SEGMENT_SEP: u8 = 1;

/// Stands behind the last name of a path.
pub const JSON_END_OF_PATH: u8 = 0;
