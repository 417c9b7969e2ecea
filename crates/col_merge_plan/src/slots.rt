//! The slots of readers and of required columns.
ghost use Rattle.std.specs.Prelude.{◌≡◌, ◌++◌, map, IfOk, OnOk};
ghost use Rattle.col_model.specs.Category.{slot_cmp};
ghost use Rattle.col_model.specs.Merge.{required_slot};
ghost use Rattle.col_model.specs.Sorted.{distinct_items};
ghost use Rattle.col_model.specs.U64List.{joined_lists};
ghost use Rattle.col_merge_plan.specs.Slots.{required_of, file_slots, keys_read, slots_by_keys};

use col_common::FileHandle;
use col_file::ColumnarReader;
use col_keys::SlotKey;
use col_types::ColumnType;
use std::alloc::{AllocError, Global};

/// The slots of all columns and of those that are required, in order, each once.
pub fn slots_of<F: FileHandle>(
    alloc: Global,
    columnar_readers: &[ColumnarReader<F>],
    required_columns: &[(String, ColumnType)],
) -> Result<Vec<SlotKey>, AllocError>
    ensures { IfOk result (λ slots. slots.items
        ≡ slots_by_keys (keys_read columnar_readers.now) (required_of required_columns.now)) }
{
    let mut slots = Vec::new(alloc);
    push_required(alloc, required_columns, &mut slots)?;
    push_files(alloc, columnar_readers, &mut slots)?;
    make_distinct(&mut slots);
    Ok(slots)
}

// Adds the slots of required columns.
fn push_required(
    alloc: Global,
    required_columns: &[(String, ColumnType)],
    slots: &mut Vec<SlotKey>,
) -> Result<(), AllocError>
    ensures { OnOk result (slots.new.items
        ≡ slots.old.items ++ map required_slot (required_of required_columns.now)) }
{
    for (name, column_type) in required_columns {
        let slot = SlotKey::new(alloc, name.as_str(), *column_type)?;
        slots.push(slot)?;
    }
    Ok(())
}

// Adds the slots of all columns of files.
fn push_files<F: FileHandle>(
    alloc: Global,
    columnar_readers: &[ColumnarReader<F>],
    slots: &mut Vec<SlotKey>,
) -> Result<(), AllocError>
    ensures { OnOk result (slots.new.items
        ≡ slots.old.items ++ joined_lists (map file_slots (keys_read columnar_readers.now))) }
{
    for reader in columnar_readers {
        push_columns(alloc, reader, slots)?;
    }
    Ok(())
}

// Adds the slots of a file's columns.
fn push_columns<F: FileHandle>(
    alloc: Global,
    reader: &ColumnarReader<F>,
    slots: &mut Vec<SlotKey>,
) -> Result<(), AllocError>
    ensures { OnOk result (slots.new.items ≡ slots.old.items ++ file_slots reader.now.keys) }
{
    for (name, handle) in reader.iter_columns() {
        let slot = SlotKey::new(alloc, name, handle.column_type())?;
        slots.push(slot)?;
    }
    Ok(())
}

// Puts slots in order, each once.
fn make_distinct(slots: &mut Vec<SlotKey>)
    ensures { slots.new.items ≡ distinct_items slot_cmp slots.old.items }
{
    slots.sort_unstable();
    slots.dedup();
}
