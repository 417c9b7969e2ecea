//! The steps of a set's script.
use col_common::RowId;
use col_questions::Ends;
use col_script::Segment;

/// What is to be done with a set.
#[derive(Drop)]
pub enum Step {
    Add(Segment),
    Drop(Vec<RowId>),
    Compact,
    Find(Lookup),
}

/// A lookup: the column's name, and the ends of the values.
#[derive(Debug, Drop)]
pub struct Lookup {
    pub name: String,
    pub ends: Ends,
}
