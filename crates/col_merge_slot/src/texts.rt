//! Writes joined columns of terms.
ghost use Rattle.std.specs.Prelude.{◌≡◌, length, is_some, if◌then◌else◌, None, IfOk, IfErr, IfSome};
ghost use Rattle.std.specs.List.{AllByRecursion};
ghost use Rattle.col_model.specs.ColumnType as types;
ghost use Rattle.col_order.specs.Orders.{counts_of};
ghost use Rattle.col_order.specs.RowOrders.{order_of};
ghost use Rattle.col_column.specs.Columns.{row_count};
ghost use Rattle.col_dynamic.specs.Dynamic.{dynamic_shape, value_count};
ghost use Rattle.col_merge_slot.specs.JoinedSlots.{WritesSlot};
ghost use Rattle.col_merge_slot.specs.Segments.{where_set, kept_of, HaveRows, is_read_as, is_none_or, IsRefusedFor};
ghost use Rattle.col_merge_slot.specs.Taken.{TakesKept};
ghost use Rattle.col_merge_slot.specs.Texts.{text_type, IsTextPart, IsCountedText, AreSegmentTexts};

use col_common::{ColumnarError, RowId, Sink};
use col_dynamic::{BytesColumn, DynamicColumn};
use col_merge_column::join_texts;
use col_order::{MergeRowOrder, orders_are_picks};
use std::alloc::Global;

/// Writes the joined column of terms of the columns whose flags are set, each of texts, or of byte
/// strings.
pub(crate) fn write_texts<K: Sink>(
    alloc: Global,
    columns: &mut [Option<DynamicColumn>],
    kept: &[bool],
    is_text: bool,
    merge_row_order: &MergeRowOrder,
    sink: &mut K,
) -> Result<(), ColumnarError>
    requires rows { HaveRows (counts_of (order_of merge_row_order.now)) columns.old }
    requires flags { length kept.now ≡ length columns.old }
    ensures written { WritesSlot (order_of merge_row_order.now)
        (where_set columns.old kept.now) (text_type is_text) (K.seen sink.old) (K.seen sink.new)
        result }
    ensures taken { TakesKept (is_read_as (text_type is_text)) columns.old kept.now columns.new
        result }
{
    orders_are_picks(merge_row_order);
    let texts = segment_texts(alloc, columns, kept, is_text, merge_row_order)?;
    texts_are_counted(&texts);
    join_texts(alloc, &texts, merge_row_order, sink)
}

// The columns of terms of segments, which are taken out of the columns whose flags are set; an
// empty one for another segment. CannotCoerce comes exactly where one that is taken isn't of the
// type.
fn segment_texts(
    alloc: Global,
    columns: &mut [Option<DynamicColumn>],
    kept: &[bool],
    is_text: bool,
    merge_row_order: &MergeRowOrder,
) -> Result<Vec<BytesColumn>, ColumnarError>
    requires rows { HaveRows (counts_of (order_of merge_row_order.now)) columns.old }
    requires flags { length kept.now ≡ length columns.old }
    ensures ok { IfOk result (λ texts. AreSegmentTexts (text_type is_text)
        (counts_of (order_of merge_row_order.now)) (where_set columns.old kept.now) texts.items) }
    ensures err { IfErr result
        (IsRefusedFor (text_type is_text) (kept_of columns.old kept.now)) }
    ensures taken { TakesKept (is_read_as (text_type is_text)) columns.old kept.now columns.new
        result }
{
    let mut texts = Vec::with_capacity(alloc, columns.len())?;
    for segment in 0..columns.len() {
        let num_rows = merge_row_order.segment_num_rows(segment);
        let Some(text) = text_at(&mut columns[segment], kept[segment], is_text, num_rows) else {
            return Err(ColumnarError::CannotCoerce);
        };
        texts.push(text)?;
    }
    Ok(texts)
}

// The column of terms of a segment of so many rows, which is taken out of the column where it is
// kept.
fn text_at(
    column: &mut Option<DynamicColumn>,
    is_kept: bool,
    is_text: bool,
    num_rows: RowId,
) -> Option<BytesColumn>
    requires { IfSome column.old
        (λ c. row_count (dynamic_shape c) (value_count c) ≡ num_rows) }
    ensures read { is_some result ≡ is_none_or (is_read_as (text_type is_text))
        (if is_kept then column.old else None) }
    ensures text { IfSome result
        (IsTextPart num_rows (if is_kept then column.old else None)) }
    ensures taken { column.new ≡ (if is_kept then None else column.old) }
{
    if !is_kept {
        return Some(empty_text(num_rows));
    }
    match column.take() {
        Some(column) => text_of(column, is_text),
        None => Some(empty_text(num_rows)),
    }
}

// Rows without a text.
fn empty_text(num_rows: RowId) -> BytesColumn
    ensures { IsTextPart num_rows None result }
{
    BytesColumn::empty(num_rows)
}

// The column, where it is one of terms of this type.
fn text_of(column: DynamicColumn, is_text: bool) -> Option<BytesColumn>
    ensures read { is_some result ≡ is_read_as (text_type is_text) column }
    ensures text { IfSome result
        (IsTextPart (row_count (dynamic_shape column) (value_count column)) (Some column)) }
{
    if is_text {
        return str_of(column);
    }
    bytes_of(column)
}

// The column, where it is one of texts.
fn str_of(column: DynamicColumn) -> Option<BytesColumn>
    ensures read { is_some result ≡ is_read_as types.str column }
    ensures text { IfSome result
        (IsTextPart (row_count (dynamic_shape column) (value_count column)) (Some column)) }
{
    let column = column.into_str()?;
    column.bytes_column().ords().values_are_counted();
    Some(BytesColumn::from(column))
}

// The column, where it is one of byte strings.
fn bytes_of(column: DynamicColumn) -> Option<BytesColumn>
    ensures read { is_some result ≡ is_read_as types.bytes column }
    ensures text { IfSome result
        (IsTextPart (row_count (dynamic_shape column) (value_count column)) (Some column)) }
{
    let column = column.into_bytes()?;
    column.ords().values_are_counted();
    Some(column)
}

// That each index counts just the ordinals.
fn texts_are_counted(texts: &[BytesColumn])
    ensures { AllByRecursion IsCountedText texts.now }
{
    for text in texts {
        text.ords().values_are_counted();
    }
}
