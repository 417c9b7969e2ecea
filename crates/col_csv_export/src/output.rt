//! Puts records into a sink.
ghost use Rattle.std.specs.Prelude.{◌≡◌, [], ◌++◌, IfOk, OnOk};
ghost use Rattle.csv.specs.Records.{fields_of};
ghost use Rattle.csv.specs.Writing.{default_writer, row_text};
ghost use Rattle.col_csv.specs.Csv.{record_text};
ghost use Rattle.col_csv_export.specs.Putting.{PutsText};

use col_common::{ColumnarError, Sink, serialize_bytes};
use csv::{ByteRecord, WriterBuilder};
use std::alloc::{AllocError, Global};
use std::mem;

// How many bytes of text are held back at most before they are written.
pub(crate) const HELD_LEN: usize = 65536;

// Puts the text of a record behind the text that is held back, and writes that where it is long.
pub(crate) fn put_record<K: Sink>(
    alloc: Global,
    fields: &ByteRecord,
    held: &mut Vec<u8>,
    output: &mut K,
) -> Result<(), ColumnarError>
    ensures { PutsText (K.seen output.old) (K.seen output.new) result held.old.items held.new.items
        (record_text (fields_of fields.now)) }
{
    push_record(alloc, fields, held)?;
    write_held(held, output)
}

// Writes the text that is held back where it is long.
pub(crate) fn write_held<K: Sink>(held: &mut Vec<u8>, output: &mut K) -> Result<(), ColumnarError>
    ensures { PutsText (K.seen output.old) (K.seen output.new) result
        held.old.items held.new.items [] }
{
    if held.len() < HELD_LEN {
        return Ok(());
    }
    serialize_bytes(output, held)?;
    held.clear();
    Ok(())
}

// Appends the text of a record. A refusal may lose what was there.
#[tactic(auto, unfolding(col_csv::specs::Csv::record_text))]
fn push_record(alloc: Global, fields: &ByteRecord, text: &mut Vec<u8>) -> Result<(), AllocError>
    ensures { OnOk result (text.new.items
        ≡ text.old.items ++ record_text (fields_of fields.now)) }
{
    let before = mem::replace(text, Vec::new(alloc));
    *text = with_record(before, fields)?;
    Ok(())
}

// A text with that of a record behind it. A text in memory refuses for want of memory alone.
fn with_record(before: Vec<u8>, fields: &ByteRecord) -> Result<Vec<u8>, AllocError>
    ensures { IfOk result (λ text. text.items
        ≡ before.items ++ row_text default_writer (fields_of fields.now)) }
{
    let mut writer = WriterBuilder::new().from_writer(before);
    if writer.write_byte_record(fields).is_err() {
        return Err(AllocError);
    }
    match writer.into_inner() {
        Ok(text) => Ok(text),
        Err(_) => Err(AllocError),
    }
}
