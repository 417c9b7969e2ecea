//! The column of an entry, with its name.
ghost use Rattle.std.specs.Prelude.{◌≡◌, not};
ghost use Rattle.col_model.specs.Written.{has_zero, is_past_docs};

use crate::EntryColumn;
use col_common::RowId;
use col_writer_columns::is_past;

/// The column of an entry, with its name.
#[derive(Clone, Copy)]
pub struct NamedEntry<'a> {
    pub name: &'a str,
    pub column: EntryColumn<'a>,
}

impl NamedEntry<'_> {
    ghost use Rattle.col_writer_file.specs.Tables.{named_entry};

    /// Whether a document isn't below a number.
    pub(crate) fn has_doc_past(&self, num_docs: RowId) -> bool
        ensures { result ≡ is_past_docs num_docs (named_entry self.now) }
    {
        is_past(self.column.docs(), num_docs)
    }

    /// Whether the name has no zero byte.
    pub(crate) fn is_named(&self) -> bool
        ensures { result ≡ not (has_zero (named_entry self.now).0.name) }
    {
        !self.name.as_bytes().contains(&0)
    }
}
