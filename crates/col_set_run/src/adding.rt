//! Adds a script's segments to a set.
ghost use Rattle.std.specs.Prelude.{◌≡◌, false, OnOk};
ghost use Rattle.col_program.specs.Script as model;
ghost use Rattle.col_script.specs.Segments.{filled, segment_of};
ghost use Rattle.col_set.specs.Sets.{ChangesSet};
ghost use Rattle.col_set_run.specs.Outcome.{with_segment};

use col_common::ColumnarError;
use col_disk::Disk;
use col_script::Segment;
use col_set::SegmentSet;
use std::alloc::Global;

// Adds the file of a segment.
pub(crate) fn add_segment<D: Disk + Drop>(
    alloc: Global,
    set: &mut SegmentSet<D>,
    segment: &Segment,
) -> Result<(), ColumnarError>
    requires { set.old.failed ≡ false }
    ensures changes { (s : model.Segment) → filled s ≡ segment_of segment.now
        → ChangesSet D.seen set.old set.new result (with_segment s set.old.held) }
    ensures works { OnOk result (set.new.failed ≡ false) }
{
    set.tell();
    let file = match segment.file_bytes(alloc) {
        Ok(file) => file,
        Err(error) => return Err(error),
    };
    set.append(file)
}
