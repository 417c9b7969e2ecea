//! Columns of segments, asked by segment and position.
ghost use Rattle.std.specs.Prelude.{◌≡◌, ◌-◌, ◌<◌, ◌^◌, ◌++◌, length, slice_get, Some, OnOk};
ghost use Rattle.col_model.specs.Index.{full_shape};
ghost use Rattle.col_index.specs.Offsets.{positions_if_any};
ghost use Rattle.col_merge_values.specs.Merges.{SegmentColumns, segment_shape, segment_values};

use col_common::RowId;
use std::alloc::AllocError;
use std::ops::Range;

/// Columns of segments.
pub(crate) trait Segments<T: Copy> {
    /// Their shapes and values.
    ghost columns: { Self → SegmentColumns T };

    /// The positions of the values of a segment's row; 0..0 where it has none.
    fn value_row_ids(&self, segment: usize, row_id: RowId) -> Range<RowId>
        requires segment { segment < length (columns self.now).shapes }
        requires row { segment_shape (columns self.now) segment ≡ full_shape
            → row_id < 2 ^ 32 - 1 }
        ensures start { result.start
            ≡ (positions_if_any (segment_shape (columns self.now) segment) row_id).0 }
        ensures end { result.end
            ≡ (positions_if_any (segment_shape (columns self.now) segment) row_id).1 };

    /// How many values a segment has.
    fn num_vals(&self, segment: usize) -> u32
        requires { segment < length (columns self.now).lists }
        ensures { result ≡ length (segment_values (columns self.now) segment) };

    /// The value at a position of a segment.
    fn get_val(&self, segment: usize, idx: u32) -> T
        requires segment { segment < length (columns self.now).lists }
        requires position { idx < length (segment_values (columns self.now) segment) }
        ensures { slice_get (segment_values (columns self.now) segment) idx ≡ Some result };

    /// Appends all values of a segment.
    fn append_segment(&self, segment: usize, values: &mut Vec<T>) -> Result<(), AllocError>
        requires { segment < length (columns self.now).lists }
        ensures { OnOk result (values.new.items
            ≡ values.old.items ++ segment_values (columns self.now) segment) }
    {
        for idx in 0..self.num_vals(segment) {
            values.push(self.get_val(segment, idx))?;
        }
        Ok(())
    }
}
