//! Columns of texts.
ghost use Rattle.std.specs.Prelude.{◌≡◌, ◌^◌, true, false, nat_le, map, length};
ghost use Rattle.col_common.specs.Ascending.{are_below};
ghost use Rattle.col_model.specs.ColumnType as types;
ghost use Rattle.col_model.specs.Limits.{dictionary_length};
ghost use Rattle.col_writer_rows.specs.Counted.{SerializesColumn};
ghost use Rattle.col_writer_rows.specs.Documents.{docs_of};
ghost use Rattle.col_writer_columns.specs.Columns.{text_entry};
ghost use Rattle.col_writer_file.specs.OnRows.{content_on, is_past_terms};

use col_common::{ColumnarError, Sink};
use col_writer_columns::StrOrBytesColumnWriter;
use col_writer_rows::{RowOrder, is_dictionary_too_long, serialize_text_column};
use std::alloc::Global;

/// Whether 32 bits don't count the bytes of the dictionary of a column of texts.
pub(crate) fn have_too_long_terms(column: &StrOrBytesColumnWriter) -> bool
    ensures { result ≡ is_past_terms column.now }
{
    is_dictionary_too_long(column.parts().0)
}

/// Writes the column of an entry of texts.
pub(crate) fn serialize_texts<K: Sink>(
    alloc: Global,
    column: &StrOrBytesColumnWriter,
    order: &RowOrder,
    sink: &mut K,
) -> Result<(), ColumnarError>
    requires below { are_below (length order.now) (docs_of column.now.values) ≡ true }
    requires fits { is_past_terms column.now ≡ false }
    ensures { (t : types.ColumnType) → types.has_terms t ≡ true →
        SerializesColumn (K.seen sink.old) (K.seen sink.new) result t (length order.now)
        (content_on (text_entry t column.now) order.now) }
{
    let (terms, texts) = column.parts();
    let sorts = column.sorts_values_within_row();
    serialize_text_column(
        alloc,
        texts.docs(),
        texts.values(),
        terms,
        sorts,
        order,
        sink,
    )
}
