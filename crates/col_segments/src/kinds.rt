//! The kinds of changes, as a journal has them.

/// A file behind the others.
pub const ADDED: u8 = 0;

/// Rows that are dropped, by their places.
pub const DROPPED: u8 = 1;

/// A file in place of all.
pub const REPLACED: u8 = 2;
