//! Writes columns of tie breakers.
ghost use Rattle.std.specs.Prelude.{◌≡◌, false, Some};
ghost use Rattle.col_model.specs.ColumnType as types;
ghost use Rattle.col_model.specs.Written.{is_past_ties};
ghost use Rattle.col_writer_rows.specs.Counted.{SerializesColumn};
ghost use Rattle.col_writer_rows.specs.Rows.{tie_content};

use col_column::serialize_generated_tie_breaker_column;
use col_common::{ColumnarError, RowId, Sink};
use std::alloc::Global;

/// Writes a column of signed numbers whose row r holds a start plus r.
pub fn serialize_tie_column<K: Sink>(
    alloc: Global,
    start: i64,
    num_docs: RowId,
    sink: &mut K,
) -> Result<(), ColumnarError>
    requires { is_past_ties num_docs (Some start) ≡ false }
    ensures { SerializesColumn (K.seen sink.old) (K.seen sink.new) result types.i64 num_docs
        (tie_content start num_docs) }
{
    serialize_generated_tie_breaker_column(alloc, start, num_docs, sink)
}
