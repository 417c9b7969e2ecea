//! The rows alive of segments as one file.
ghost use Rattle.std.specs.Prelude.{◌≡◌, ◌<◌, ◌^◌, ◌++◌, [], List, map, IfOk, IfErr, OnOk};
ghost use Rattle.std.specs.List.{AllZip};
ghost use Rattle.col_merge.specs.Readings.{AllStay};
ghost use Rattle.col_model.specs.File.{part_of_table};
ghost use Rattle.col_model.specs.Merge.{merged};
ghost use Rattle.col_model.specs.Table.{Table};
ghost use Rattle.col_order.specs.Orders.{address_of};
ghost use Rattle.col_order.specs.RowOrders.{order_of};
ghost use Rattle.col_segments.specs.Compaction.{MergesRows};
ghost use Rattle.col_segments.specs.Files.{AreOpenBeside, ReadsTable};
ghost use Rattle.col_segments.specs.Live.{addresses, merged_alive, with_alive};
ghost use Rattle.col_segments.specs.Segments.{alive_count};

use crate::Segment;
use crate::opening::Reader;
use bytes::Bytes;
use col_common::{Buffer, ColumnarError, RowAddr, RowId};
use col_merge::merge_columnar;
use col_merge_plan::row_counts;
use col_order::{MergeRowOrder, ShuffleMergeOrder};
use std::alloc::{AllocError, Global};

/// The file of the rows that are alive, as one table.
pub fn merge_alive(
    alloc: Global,
    held: &[Segment],
    readers: &mut [Reader],
) -> Result<Bytes, ColumnarError>
    requires { AreOpenBeside held.now readers.old }
    ensures made { MergesRows result (merged_alive held.now) }
    ensures open_ { AreOpenBeside held.now readers.new }
{
    let counts = row_counts(alloc, readers)?;
    let rows = alive_rows(alloc, held)?;
    match ShuffleMergeOrder::new(alloc, &counts, rows) {
        Ok(order) => merge_rows(alloc, readers, MergeRowOrder::from(order)),
        // The rows are there, and fewer than 2^32, so that memory alone is wanting.
        Err(_) => Err(ColumnarError::OutOfMemory),
    }
}

// The rows that are alive, of the segments that have some.
fn alive_rows(alloc: Global, held: &[Segment]) -> Result<Vec<RowAddr>, AllocError>
    requires { alive_count held.now < 2 ^ 32 }
    ensures { IfOk result (λ rows. map address_of rows.items ≡ addresses (with_alive held.now)) }
{
    let mut rows = Vec::new(alloc);
    let mut segment_ord = 0u32;
    for place in 0..held.len() {
        let segment = &held[place];
        if segment.num_alive() > 0 {
            push_segment(alloc, &mut rows, segment_ord, segment)?;
            segment_ord += 1;
        }
    }
    Ok(rows)
}

// Appends the addresses of the rows that are alive in a segment.
fn push_segment(
    alloc: Global,
    rows: &mut Vec<RowAddr>,
    segment_ord: u32,
    segment: &Segment,
) -> Result<(), AllocError>
    ensures { OnOk result (map address_of rows.new.items
        ≡ map address_of rows.old.items ++ map (λ r. (segment_ord, r)) segment.now.alive) }
{
    let alive = segment.alive().to_rows(alloc)?;
    push_rows(rows, segment_ord, &alive)
}

// Appends the addresses of rows of a segment.
fn push_rows(rows: &mut Vec<RowAddr>, segment_ord: u32, alive: &[RowId]) -> Result<(), AllocError>
    ensures { OnOk result (map address_of rows.new.items
        ≡ map address_of rows.old.items ++ map (λ r. (segment_ord, r)) alive.now) }
{
    for row_id in alive {
        rows.push(RowAddr {
            segment_ord,
            row_id: *row_id,
        })?;
    }
    Ok(())
}

// The file of rows of open files.
fn merge_rows(
    alloc: Global,
    readers: &mut [Reader],
    order: MergeRowOrder,
) -> Result<Bytes, ColumnarError>
    ensures made { (tables : List Table) → AllZip ReadsTable tables readers.old
        → MergesRows result (merged (map part_of_table tables) [] (order_of order)) }
    ensures kept { AllStay readers.old readers.new }
{
    let mut file = Buffer::new(alloc);
    match merge_columnar(alloc, readers, &[], order, &mut file) {
        Ok(()) => file_of(file),
        Err(ColumnarError::NumericalConflict) => Err(ColumnarError::NumericalConflict),
        Err(ColumnarError::TooLarge) => Err(ColumnarError::TooLarge),
        // Files in memory fail for want of memory alone, and nothing else refuses rows that are
        // there.
        Err(_) => Err(ColumnarError::OutOfMemory),
    }
}

// What was written.
fn file_of(file: Buffer) -> Result<Bytes, ColumnarError>
    ensures ok { IfOk result (λ bytes. bytes ≡ file) }
    ensures err { IfErr result (λ e. e ≡ ColumnarError.OutOfMemory) }
{
    Ok(Bytes::from_vec(file.into_bytes())?)
}
