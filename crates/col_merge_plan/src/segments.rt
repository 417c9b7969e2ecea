//! The segments that have columns of slots.
ghost use Rattle.std.specs.Prelude.{◌≡◌, ◌++◌, map, IfOk, OnOk};
ghost use Rattle.std.specs.Prelude.{◌≤◌, filter, length, slice_range};
ghost use Rattle.std.specs.List.Sorted.{IsSorted};
ghost use Rattle.col_model.specs.Category.{same_slot};
ghost use Rattle.col_merge_plan.specs.Placed.{ArePlaced, placed_cmp, segments_in};
ghost use Rattle.col_merge_plan.specs.Slots.{file_slots, keys_read};

use col_common::FileHandle;
use col_file::ColumnarReader;
use col_keys::SlotKey;
use std::alloc::{AllocError, Global};
use std::ops::Range;

/// The slots of all columns, each with the segment that has it, in order. They are sorted once, and
/// each slot's segments are found by halves.
pub fn placed_slots<F: FileHandle>(
    alloc: Global,
    columnar_readers: &[ColumnarReader<F>],
) -> Result<Vec<(SlotKey, usize)>, AllocError>
    ensures { IfOk result (λ placed. ArePlaced (keys_read columnar_readers.now) placed.items) }
{
    let mut placed = Vec::new(alloc);
    for segment in 0..columnar_readers.len() {
        place_columns(alloc, &columnar_readers[segment], segment, &mut placed)?;
    }
    placed.sort_unstable();
    Ok(placed)
}

// Adds the slots of a segment's columns.
fn place_columns<F: FileHandle>(
    alloc: Global,
    reader: &ColumnarReader<F>,
    segment: usize,
    placed: &mut Vec<(SlotKey, usize)>,
) -> Result<(), AllocError>
    ensures { OnOk result (placed.new.items
        ≡ placed.old.items ++ map (λ s. (s, segment)) (file_slots reader.now.keys)) }
{
    for (name, handle) in reader.iter_columns() {
        let slot = SlotKey::new(alloc, name, handle.column_type())?;
        placed.push((slot, segment))?;
    }
    Ok(())
}

/// The segments of a slot among slots that are sorted with their segments.
pub fn segments_of(
    alloc: Global,
    placed: &[(SlotKey, usize)],
    slot: &SlotKey,
) -> Result<Vec<usize>, AllocError>
    requires { IsSorted placed_cmp placed.now }
    ensures { IfOk result (λ segments. segments.items ≡ segments_in placed.now slot.now) }
{
    let places = places_of(placed, slot);
    placed[places.start..places.end]
        .iter()
        .map(|place| place.1)
        .collect(alloc)
}

// The places of a slot, by halves.
fn places_of(placed: &[(SlotKey, usize)], slot: &SlotKey) -> Range<usize>
    requires { IsSorted placed_cmp placed.now }
    ensures ordered { result.start ≤ result.end }
    ensures within { result.end ≤ length placed.now }
    ensures places { filter (λ p. same_slot p.0 slot.now) placed.now
        ≡ slice_range placed.now result.start result.end }
{
    let start = placed.partition_point(|place| place.0.cmp(slot).is_lt());
    let end = placed.partition_point(|place| place.0.cmp(slot).is_le());
    start..end
}
