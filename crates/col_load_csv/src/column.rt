//! Columns.
use crate::kind::Kind;
use col_documents::Form;

/// A column: its name, and how its fields are read, by its form or without one by its kind.
#[derive(Drop)]
pub(crate) struct Column {
    pub(crate) name: String,
    pub(crate) form: Form,
    pub(crate) kind: Kind,
}
