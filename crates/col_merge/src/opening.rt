//! Opens the columns of a slot.
ghost use Rattle.std.specs.Prelude.{◌≡◌, find, option_map, IfOk, IfErr};
ghost use Rattle.col_common.specs.declared.error.ColumnarError.TheVariants as refusals;
ghost use Rattle.col_model.specs.Category.{same_slot};
ghost use Rattle.col_file.specs.Handles.{handle_of};
ghost use Rattle.col_file.specs.Readers.{Reads};
ghost use Rattle.col_merge_plan.specs.Slots.{entry_slot};
ghost use Rattle.col_merge.specs.Opened.{IsOpenedAs, AllOpenedAs, RefusesColumn, RefusesColumns};
ghost use Rattle.col_merge.specs.Readings.{AllRead, slot_reads};

use col_common::{ColumnarError, FileHandle};
use col_dynamic::DynamicColumn;
use col_file::{ColumnarReader, DynamicColumnHandle};
use col_keys::SlotKey;
use std::alloc::Global;

/// Opens the column that each reader has under a slot, where it has one: its file is read once. It
/// answers InvalidData where the bytes of some such column are none.
pub fn open_columns<F: FileHandle>(
    alloc: Global,
    columnar_readers: &mut [ColumnarReader<F>],
    slot: &SlotKey,
) -> Result<Vec<Option<DynamicColumn>>, ColumnarError>
    ensures ok { IfOk result (λ columns. AllOpenedAs slot.now columnar_readers.old columns.items) }
    ensures err { IfErr result (RefusesColumns slot.now columnar_readers.old columnar_readers.new) }
    ensures kept { AllRead (slot_reads slot.now) columnar_readers.old columnar_readers.new }
{
    let mut columns = Vec::new(alloc);
    for segment in 0..columnar_readers.len() {
        let column = open_in(alloc, &mut columnar_readers[segment], slot)?;
        columns.push(column)?;
    }
    Ok(columns)
}

// Opens the column that a reader has under a slot, where it has one.
pub(crate) fn open_in<F: FileHandle>(
    alloc: Global,
    reader: &mut ColumnarReader<F>,
    slot: &SlotKey,
) -> Result<Option<DynamicColumn>, ColumnarError>
    ensures ok { IfOk result (IsOpenedAs slot.now reader.old) }
    ensures err { IfErr result (RefusesColumn slot.now reader.old reader.new) }
    ensures kept { Reads (slot_reads slot.now reader.old.keys) reader.old reader.new }
{
    reader.file_is_whole();
    match find_handle(alloc, reader, slot)? {
        Some(handle) => Ok(Some(handle.open(alloc, reader)?)),
        None => Ok(None),
    }
}

// The handle of the column that a reader has under a slot.
fn find_handle<F: FileHandle>(
    alloc: Global,
    reader: &ColumnarReader<F>,
    slot: &SlotKey,
) -> Result<Option<DynamicColumnHandle>, ColumnarError>
    ensures ok { IfOk result (λ found. found ≡ option_map handle_of
        (find (λ e. same_slot (entry_slot e) slot.now) reader.now.keys.entries)) }
    ensures err { IfErr result (λ e. e ≡ refusals.OutOfMemory) }
{
    let handles = reader.read_columns(alloc, slot.name())?;
    for handle in handles {
        if slot.has_type(handle.column_type()) {
            return Ok(Some(handle));
        }
    }
    Ok(None)
}
