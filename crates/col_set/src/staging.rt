//! Changes in memory, before a disk has them.
ghost use Rattle.std.specs.Prelude.{◌≡◌, true, Some, IfOk, IfErr, OnErr};
ghost use Rattle.col_segments.specs.RowIds.{row_ids};
ghost use Rattle.col_segments.specs.Segments.{alive_count, appended, are_places, dropped};
ghost use Rattle.col_writer_columns.specs.Answers.{MayRefuse};

use bytes::Bytes;
use col_common::{ColumnarError, RowId};
use col_segments::{Segments, id_bytes};
use std::alloc::Global;

// Adds a file to segments in memory, and gives its bytes.
pub(crate) fn stage_file(segments: &mut Segments, file: Vec<u8>) -> Result<Bytes, ColumnarError>
    ensures ok { IfOk result (λ bytes. (bytes ≡ file.items)
        × (appended file.items segments.old ≡ Ok segments.new)) }
    ensures err { IfErr result (MayRefuse (appended file.items segments.old)) }
    ensures kept { IfErr result (λ _. segments.new ≡ segments.old) }
{
    let file = Bytes::from_vec(file)?;
    segments.append(file.clone()?)?;
    Ok(file)
}

// The bytes of ids whose rows may be dropped.
pub(crate) fn stage_ids(
    alloc: Global,
    segments: &Segments,
    ids: &[RowId],
) -> Result<Vec<u8>, ColumnarError>
    ensures spelled { IfOk result (λ bytes. row_ids bytes.items ≡ Some ids.now) }
    ensures places { IfOk result (λ _. are_places 0 (alive_count segments.now) ids.now ≡ true) }
    ensures err { IfErr result (MayRefuse (dropped ids.now segments.now)) }
{
    if !segments.are_places(ids) {
        return Err(ColumnarError::BadOrder);
    }
    Ok(id_bytes(alloc, ids)?)
}
