//! The steps of a script, one after another.
ghost use Rattle.std.specs.Prelude.{◌≡◌, false, List, map, OnOk};
ghost use Rattle.col_set_run.specs.Running.{RunsSteps, TakesStep};
ghost use Rattle.col_set_script.specs.SetScripts.{SetStep};
ghost use Rattle.col_set_script.specs.Steps.{filled_step, step_of};

use crate::adding::add_segment;
use crate::finding::find_rows;
use col_common::ColumnarError;
use col_disk::Disk;
use col_set::SegmentSet;
use col_set_script::Step;
use std::alloc::Global;

// Takes a step. A lookup appends its line.
fn take_step<D: Disk + Drop>(
    alloc: Global,
    set: &mut SegmentSet<D>,
    step: Step,
    out: &mut Vec<u8>,
) -> Result<(), ColumnarError>
    requires { set.old.failed ≡ false }
    ensures takes { (x : SetStep) → filled_step x ≡ step_of step
        → TakesStep D.seen set.old set.new out.old.items out.new.items x result }
    ensures works { OnOk result (set.new.failed ≡ false) }
{
    set.tell();
    match step {
        Step::Add(segment) => add_segment(alloc, set, &segment),
        Step::Drop(ids) => set.drop_rows(&ids),
        Step::Compact => set.compact(),
        Step::Find(lookup) => find_rows(alloc, set, lookup, out),
    }
}

/// Takes steps in order, up to the first one that is refused, and appends the lines of lookups.
pub fn run_steps<D: Disk + Drop>(
    alloc: Global,
    set: &mut SegmentSet<D>,
    steps: Vec<Step>,
    out: &mut Vec<u8>,
) -> Result<(), ColumnarError>
    requires { set.old.failed ≡ false }
    ensures runs { (xs : List SetStep) → map filled_step xs ≡ map step_of steps.items
        → RunsSteps D.seen set.old set.new out.old.items out.new.items xs result }
    ensures works { OnOk result (set.new.failed ≡ false) }
{
    set.tell();
    for step in steps {
        take_step(alloc, set, step, out)?;
    }
    Ok(())
}
