//! Looks up rows of a set, and prints what was found.
ghost use Rattle.std.specs.Prelude.{◌≡◌, ◌∷◌, [], IfErr, OnOk};
ghost use Rattle.col_program.specs.Report.{Prints};
ghost use Rattle.col_set_run.specs.Outcome.{line_of};
ghost use Rattle.col_set_script.specs.Steps.{lookup_of};

use crate::ends::ends_asked;
use crate::lines::push_found;
use col_common::ColumnarError;
use col_disk::Disk;
use col_set::SegmentSet;
use col_set_script::Lookup;
use std::alloc::Global;

// Appends the line of a lookup.
pub(crate) fn find_rows<D: Disk + Drop>(
    alloc: Global,
    set: &mut SegmentSet<D>,
    lookup: Lookup,
    out: &mut Vec<u8>,
) -> Result<(), ColumnarError>
    ensures line { OnOk result (Prints out.old.items out.new.items
        (line_of (lookup_of lookup) set.old.held ∷ [])) }
    ensures err { IfErr result (λ e. e ≡ ColumnarError.OutOfMemory) }
    ensures same { set.new ≡ set.old }
{
    let Lookup { name, ends } = lookup;
    let column_type = ends.column_type();
    let (lo, hi) = ends_asked(ends);
    let mut places = Vec::new(alloc);
    set.find(&name, column_type, &lo, &hi, &mut places)?;
    push_found(alloc, &name, column_type, &places, out)?;
    Ok(())
}
