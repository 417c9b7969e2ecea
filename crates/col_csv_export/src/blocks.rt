//! Makes the text of a block of rows.
ghost use Rattle.std.specs.Prelude.{◌<◌, ◌++◌, List, ℕ, map, IfOk, OnOk};
ghost use Rattle.csv.specs.Records.{fields_of};
ghost use Rattle.col_csv.specs.Csv.{record_text};
ghost use Rattle.col_csv_export.specs.Putting.{AddsRows, HasText};
ghost use Rattle.col_opened.specs.Opened.{column_of};

use crate::output::HELD_LEN;
use crate::records::fill_row;
use col_opened::OpenColumn;
use csv::{ByteRecord, Writer, WriterBuilder};
use std::alloc::{AllocError, Global};
use std::mem;

// A text, and the row behind the last one in it.
#[derive(Drop)]
struct Block {
    text: Vec<u8>,
    next: u32,
}

// Appends the records of rows from one on, until these are long or no row is left, and moves on
// to the row behind them. A refusal may lose what was there.
pub(crate) fn push_rows(
    alloc: Global,
    columns: &[OpenColumn],
    row: &mut u32,
    row_count: u32,
    text: &mut Vec<u8>,
) -> Result<(), AllocError>
    requires { row.old < row_count }
    ensures { OnOk result (AddsRows (map column_of columns.now) row.old row.new row_count
        text.old.items text.new.items) }
{
    let before = mem::replace(text, Vec::new(alloc));
    let block = with_rows(alloc, columns, *row, row_count, before)?;
    *text = block.text;
    *row = block.next;
    Ok(())
}

// A text with the records of rows from one on behind it. One writer makes them all, since a new
// one for each row costs more than the row.
fn with_rows(
    alloc: Global,
    columns: &[OpenColumn],
    from: u32,
    row_count: u32,
    before: Vec<u8>,
) -> Result<Block, AllocError>
    requires { from < row_count }
    ensures { IfOk result (λ block. AddsRows (map column_of columns.now) from block.next row_count
        before.items block.text.items) }
{
    let mut field = Vec::new(alloc);
    let mut fields = ByteRecord::new(alloc);
    let mut writer = WriterBuilder::new().from_writer(before);
    let mut written: usize = 0;
    let mut next = from;
    while next < row_count && written < HELD_LEN {
        fill_row(alloc, columns, next, &mut field, &mut fields)?;
        write_row(&mut writer, &fields)?;
        written = written
            .saturating_add(fields.as_slice().len())
            .saturating_add(fields.len());
        next += 1;
    }
    match writer.into_inner() {
        Ok(text) => Ok(Block { text, next }),
        Err(_) => Err(AllocError),
    }
}

// Writes a record. A text in memory refuses for want of memory alone, as all rows have as many
// fields.
fn write_row(writer: &mut Writer<Vec<u8>>, fields: &ByteRecord) -> Result<(), AllocError>
    ensures { OnOk result ((text : List ℕ) → HasText writer.old text
        → HasText writer.new (text ++ record_text (fields_of fields.now))) }
{
    let Ok(()) = writer.write_byte_record(fields) else {
        return Err(AllocError);
    };
    Ok(())
}
