//! The top call.
ghost use Rattle.col_set_tool.specs.SetRuns.{RunsSet};

use crate::reading::read_steps;
use crate::whole::run_whole;
use col_common::{Sink, Source};
use col_disk::Disk;
use col_set::SegmentSet;
use std::alloc::Global;

/// Does all that the program of sets does: reads the script, opens the set that the disk holds,
/// takes the script's steps one after another, writes the set as one file into the output, and
/// reports on the lookups and the rows. It gives the disk back, behind the status.
///
/// From a disk that holds a set and has nothing pending, whatever moment a crash comes, the rows
/// are those after some first steps of the script, none skipped and none in part. Status 0: the
/// bytes appended to the output are a file that stands for the set as one table, and the disk holds
/// just this table; those appended to the report are the lines of the lookups, each over the rows
/// that its step found, and of the row count. Any other status has its cause, which the contract
/// names.
pub fn run_set<D: Disk + Drop, S: Source, K: Sink, R: Sink>(
    alloc: Global,
    disk: D,
    script: &mut S,
    output: &mut K,
    report: &mut R,
) -> (u8, D)
    ensures { RunsSet (D.seen disk) (D.seen result.1) (S.left script.old) (S.left script.new)
        (S.faults script.old) (S.faults script.new) (K.seen output.old) (K.seen output.new)
        (R.seen report.old) (R.seen report.new) result.0 }
{
    let steps = match read_steps(alloc, script) {
        Ok(steps) => steps,
        Err(status) => return (status, disk),
    };
    let mut set = match SegmentSet::open(alloc, disk) {
        Ok(set) => set,
        Err((disk, error)) => return (error.code(), disk),
    };
    let status = match run_whole(alloc, &mut set, steps, output, report) {
        Ok(()) => 0,
        Err(error) => error.code(),
    };
    (status, set.into_disk())
}
