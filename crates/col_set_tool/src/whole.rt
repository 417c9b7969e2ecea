//! Runs the steps of a script over an open set, and writes the set and the report.
ghost use Rattle.std.specs.Prelude.{◌≡◌, false, List, map};
ghost use Rattle.col_set_script.specs.SetScripts.{SetStep};
ghost use Rattle.col_set_script.specs.Steps.{filled_step, step_of};
ghost use Rattle.col_set_tool.specs.Runs.{RunsWhole};

use col_common::{ColumnarError, Sink};
use col_disk::Disk;
use col_set::{SegmentSet, write_bytes};
use col_set_run::{push_rows, run_steps};
use col_set_script::Step;
use std::alloc::Global;

// Takes all steps, writes the set as one file, and then the report.
pub(crate) fn run_whole<D: Disk + Drop, K: Sink, R: Sink>(
    alloc: Global,
    set: &mut SegmentSet<D>,
    steps: Vec<Step>,
    output: &mut K,
    report: &mut R,
) -> Result<(), ColumnarError>
    requires { set.old.failed ≡ false }
    ensures { (xs : List SetStep) → map filled_step xs ≡ map step_of steps.items
        → RunsWhole D.seen set.old set.new (K.seen output.old) (K.seen output.new)
        (R.seen report.old) (R.seen report.new) xs result }
{
    let mut lines = Vec::new(alloc);
    run_steps(alloc, set, steps, &mut lines)?;
    push_rows(alloc, set.num_rows(), &mut lines)?;
    set.write(output)?;
    write_bytes(report, &lines)
}
