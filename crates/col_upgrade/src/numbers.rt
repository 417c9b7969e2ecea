//! Writes the index of a column of numbers again, and the numbers behind it as they stand.
ghost use Rattle.std.specs.Prelude.{◌≡◌, ◌++◌, IfErr, OnOk};
ghost use Rattle.col_common.specs.declared.error.ColumnarError.TheVariants as refusals;
ghost use Rattle.col_index.specs.Versions.{version_number};
ghost use Rattle.col_upgrade.specs.Again.{HasRows, AddsRows};

use crate::indexes::index_again;
use bytes::Bytes;
use col_common::{Buffer, ColumnarError, RowId, Sink, cut_by_first};
use col_index::Version;
use std::alloc::{AllocError, Global};

// Adds the bytes of an index and of values, the index in the current version.
pub(crate) fn push_numbers(
    alloc: Global,
    bytes: Bytes,
    format_version: Version,
    num_rows: RowId,
    made: &mut Buffer,
) -> Result<(), ColumnarError>
    requires { HasRows bytes (version_number format_version) num_rows }
    ensures ok { OnOk result
        (AddsRows made.old made.new bytes (version_number format_version) num_rows) }
    ensures err { IfErr result (λ e. e ≡ refusals.OutOfMemory) }
{
    let (old_index, values) = cut_by_first(bytes)?;
    let new_index = index_again(alloc, old_index, format_version, num_rows)?;
    let index = new_index.as_slice();
    push(made, index)?;
    push(made, values.as_slice())?;
    push(made, &(index.len() as u64).to_le_bytes())?;
    Ok(())
}

// Adds bytes behind those in memory.
pub(crate) fn push(made: &mut Buffer, bytes: &[u8]) -> Result<(), AllocError>
    ensures { OnOk result (made.new ≡ made.old ++ bytes.now) }
{
    match made.write_all(bytes) {
        Ok(()) => Ok(()),
        // Bytes in memory refuse a write for want of memory alone.
        Err(_) => Err(AllocError),
    }
}
