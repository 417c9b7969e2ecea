//! The places of rows that have a value of a range.
ghost use Rattle.std.specs.Prelude.{◌≡◌, ◌<◌, ◌+◌, ◌++◌, ◌^◌, ℕ, List, length, map, IfOk, OnOk};
ghost use Rattle.std.specs.List.{AllZip};
ghost use Rattle.col_common.specs.Replacing.{Replaces};
ghost use Rattle.col_merge.specs.Opened.{AllOpenedAs};
ghost use Rattle.col_merge.specs.Readings.{AllRead, slot_reads};
ghost use Rattle.col_model.specs.Category.{slot_of};
ghost use Rattle.col_model.specs.ColumnType as types;
ghost use Rattle.col_places.specs.Places.{places_of};
ghost use Rattle.col_questions.specs.Steps.{end_of};
ghost use Rattle.col_segments.specs.Files.{AreOpenBeside};
ghost use Rattle.col_segments.specs.Found.{HasColumn, MayFit, has_value, places_between};
ghost use Rattle.col_segments.specs.Live.{live, row_in, with_alive};
ghost use Rattle.col_segments.specs.Segments.{alive_count};
ghost use Rattle.col_types.specs.Kinds.{kind_of};

use crate::Segment;
use crate::held::tables_are_sound;
use crate::opening::Reader;
use col_common::{ColumnarError, RowId};
use col_dynamic::DynamicColumn;
use col_keys::SlotKey;
use col_merge::open_columns;
use col_places::push_places;
use col_questions::QueryValue;
use col_types::ColumnType;
use std::alloc::{AllocError, Global};

/// Puts the places of the rows that have a value from one end to the other under a name and the
/// category of a type. The list holds nothing else then. Refuses for want of memory alone.
pub fn find_places(
    alloc: Global,
    held: &[Segment],
    readers: &mut [Reader],
    name: &str,
    column_type: ColumnType,
    lo: &QueryValue,
    hi: &QueryValue,
    places: &mut Vec<RowId>,
) -> Result<(), ColumnarError>
    requires { AreOpenBeside held.now readers.old }
    ensures found { Replaces result places.new.items (places_between name.now (kind_of column_type)
        (end_of lo.now) (end_of hi.now) (live held.now)) }
    ensures open_ { AreOpenBeside held.now readers.new }
{
    places.clear();
    match push_all(alloc, held, readers, name, column_type, lo, hi, places) {
        Ok(()) => Ok(()),
        Err(_) => {
            places.clear();
            Err(ColumnarError::OutOfMemory)
        }
    }
}

// Appends them.
fn push_all(
    alloc: Global,
    held: &[Segment],
    readers: &mut [Reader],
    name: &str,
    column_type: ColumnType,
    lo: &QueryValue,
    hi: &QueryValue,
    places: &mut Vec<RowId>,
) -> Result<(), AllocError>
    requires { AreOpenBeside held.now readers.old }
    ensures found { OnOk result (places.new.items ≡ places.old.items ++ places_between name.now
        (kind_of column_type) (end_of lo.now) (end_of hi.now) (live held.now)) }
    ensures open_ { AreOpenBeside held.now readers.new }
{
    tables_are_sound(held);
    let slot = SlotKey::new(alloc, name, column_type)?;
    let columns = open_slot(alloc, readers, &slot)?;
    push_found(alloc, held, &columns, lo, hi, places)
}

// Opens the columns of a slot.
fn open_slot(
    alloc: Global,
    readers: &mut [Reader],
    slot: &SlotKey,
) -> Result<Vec<Option<DynamicColumn>>, AllocError>
    ensures ok { IfOk result (λ columns. AllOpenedAs slot.now readers.old columns.items) }
    ensures kept { AllRead (slot_reads slot.now) readers.old readers.new }
{
    match open_columns(alloc, readers, slot) {
        Ok(columns) => Ok(columns),
        // Files in memory that stand for tables refuse for want of memory alone.
        Err(_) => Err(AllocError),
    }
}

// Appends the places of the rows of all segments, by the columns of those that have a row alive.
fn push_found(
    alloc: Global,
    held: &[Segment],
    columns: &[Option<DynamicColumn>],
    lo: &QueryValue,
    hi: &QueryValue,
    places: &mut Vec<RowId>,
) -> Result<(), AllocError>
    requires few { alive_count held.now < 2 ^ 32 }
    requires fits { AllZip MayFit (map (λ h. h.table) (with_alive held.now)) columns.now }
    ensures { (name : List ℕ) (t : types.ColumnType)
        → AllZip (HasColumn (slot_of name t)) (map (λ h. h.table) (with_alive held.now)) columns.now
        → OnOk result (places.new.items ≡ places.old.items
        ++ places_between name t (end_of lo.now) (end_of hi.now) (live held.now)) }
{
    let mut first = 0;
    let mut next = 0;
    for place in 0..held.len() {
        let segment = &held[place];
        if segment.num_alive() > 0 {
            push_in(alloc, segment, &columns[next], lo, hi, first, places)?;
            first += segment.num_alive();
            next += 1;
        }
    }
    Ok(())
}

// Appends the places of the rows of a segment, by its column.
fn push_in(
    alloc: Global,
    segment: &Segment,
    column: &Option<DynamicColumn>,
    lo: &QueryValue,
    hi: &QueryValue,
    first: RowId,
    places: &mut Vec<RowId>,
) -> Result<(), AllocError>
    requires fits { MayFit segment.now.table column.now }
    requires room { first + length segment.now.alive < 2 ^ 32 }
    ensures { (name : List ℕ) (t : types.ColumnType)
        → HasColumn (slot_of name t) segment.now.table column.now
        → OnOk result (places.new.items ≡ places.old.items ++ places_of first
        (has_value name t (end_of lo.now) (end_of hi.now))
        (map (row_in segment.now.table) segment.now.alive)) }
{
    let Some(column) = column else {
        return Ok(());
    };
    push_places(alloc, column, lo, hi, segment.alive(), first, places)
}
