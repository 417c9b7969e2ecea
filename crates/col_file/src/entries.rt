//! The entries of a file, with the place of each column.
ghost use Rattle.std.specs.Prelude.{◌≡◌, ◌<◌, ◌^◌, IfOk};
ghost use Rattle.col_keys.specs.KeyTables.{all_keyed};
ghost use Rattle.col_model.specs.Keys.{entries_from, total_length};
ghost use Rattle.col_file.specs.Entries.{entries_seen};

use crate::column_entry::ColumnEntry;
use col_keys::KeyedLength;
use std::alloc::{AllocError, Global};

// The entries of columns that follow one another from the file's front on.
pub(crate) fn entries_of(
    alloc: Global,
    columns: Vec<KeyedLength>,
) -> Result<Vec<ColumnEntry>, AllocError>
    requires { total_length (all_keyed columns.items) < 2 ^ 64 }
    ensures { IfOk result (λ es.
        entries_seen es.items ≡ entries_from 0 (all_keyed columns.items)) }
{
    let mut entries = Vec::with_capacity(alloc, columns.len())?;
    let mut start = 0;
    for column in columns {
        let KeyedLength { key, num_bytes } = column;
        let end = start + num_bytes;
        entries.push(ColumnEntry { key, start, end })?;
        start = end;
    }
    Ok(entries)
}
