//! Bars of drawings.

/// A range of whole numbers, and how many values lie in it.
#[derive(Debug, Clone, Copy, PartialEq, Eq)]
pub struct Bar {
    /// The least number of the range.
    pub first: i128,
    /// The greatest number of the range.
    pub last: i128,
    pub count: u64,
}
