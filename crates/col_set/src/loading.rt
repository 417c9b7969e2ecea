//! Reads a disk's journal, and makes its changes.
ghost use Rattle.std.specs.Prelude.{◌≡◌, ◌⊎◌, ◌<◌, ◌≤◌, List, [], Option, Some, None, IfOk, IfErr, IfSome, OnOk, MatchResult};
ghost use Rattle.col_common.specs.Causes.{Rose};
ghost use Rattle.col_common.specs.declared.error.ColumnarError.TheVariants.{InvalidData};
ghost use Rattle.col_disk.specs.Crash.{LeavesOnly};
ghost use Rattle.col_disk.specs.Disks.{Stays, TellsAlike};
ghost use Rattle.col_journal.specs.Found.{change_of};
ghost use Rattle.col_journal.specs.Journal.{Change, replayed};
ghost use Rattle.col_journal.specs.Settled.{IsReadTo, IsSettled};
ghost use Rattle.col_set.specs.Held.{Stands, held_by, step};
ghost use Rattle.col_set.specs.Sets.{IsGatePlace, IsHeldAlike, RefusesOpen};

use col_common::{ColumnarError, HandleError};
use col_disk::Disk;
use col_journal::{Found, next_change, ready};
use col_segments::Segments;
use std::alloc::Global;

// Makes the changes that a disk holds, and answers the place of the gate where its journal ends.
pub(crate) fn load<D: Disk>(
    disk: &mut D,
    alloc: Global,
    segments: &mut Segments,
) -> Result<u64, ColumnarError>
    requires { segments.old ≡ [] }
    ensures ok { IfOk result (λ gate. IsGatePlace (D.seen disk.new) gate
        × IfSome (D.seen disk.old).told (λ bytes.
        (held_by bytes ≡ Some segments.new) × Stands (D.seen disk.new) gate segments.new)) }
    ensures refused { IfErr result (RefusesOpen
        (IfSome (D.seen disk.old).told (λ bytes. held_by bytes ≡ None))
        (Rose (D.seen disk.old).faults (D.seen disk.new).faults)) }
    ensures any_moment { IfSome (D.seen disk.old).told (λ bytes.
        LeavesOnly (D.seen disk.old).images (D.seen disk.new).images
        (λ c. (D.seen disk.old).images.may_leave c ⊎ IsHeldAlike bytes c)) }
    ensures later { TellsAlike (D.seen disk.old).told (D.seen disk.new).told
        × ((D.seen disk.old).faults ≤ (D.seen disk.new).faults) }
{
    match ready(disk) {
        Ok(()) => {}
        Err(HandleError::Failed) => return Err(ColumnarError::WriteFault),
        Err(HandleError::Memory) => return Err(ColumnarError::OutOfMemory),
    }
    replay(disk, alloc, segments)
}

// Makes the changes of a journal, from its first gate on, and answers the place of the gate where
// it ends.
fn replay<D: Disk>(
    disk: &mut D,
    alloc: Global,
    segments: &mut Segments,
) -> Result<u64, ColumnarError>
    requires inside { 0 < (D.seen disk.old).size }
    ensures ok { (all : Option (List Change)) → IsReadTo (D.seen disk.old) 0 [] all
        → IfOk result (λ gate. (changes : List Change)
        × IsSettled (D.seen disk.new) gate changes
        × (all ≡ Some changes)
        × (replayed step segments.old changes ≡ Some segments.new)) }
    ensures invalid_data { (all : Option (List Change)) → IsReadTo (D.seen disk.old) 0 [] all
        → result ≡ Err InvalidData
        → IfSome all (λ changes. replayed step segments.old changes ≡ None) }
    ensures answer { MatchResult result (IsGatePlace (D.seen disk.new))
        (RefusesOpen (Unit {0}) (Rose (D.seen disk.old).faults (D.seen disk.new).faults)) }
    ensures stays { Stays (D.seen disk.old) (D.seen disk.new)
        × ((D.seen disk.old).faults ≤ (D.seen disk.new).faults) }
{
    let _size = disk.len();
    let mut gate = 0;
    while let Some((found, next)) = next_change(disk, alloc, gate)? {
        apply_read(segments, &found)?;
        gate = next;
    }
    Ok(gate)
}

// Makes a change that was read. What it refuses stands for nothing.
fn apply_read(segments: &mut Segments, found: &Found) -> Result<(), ColumnarError>
    ensures ok { OnOk result (step (change_of found.now) segments.old ≡ Some segments.new) }
    ensures refused { IfErr result
        (RefusesOpen (step (change_of found.now) segments.old ≡ None) ⊥) }
{
    match segments.apply(found.kind, &found.bytes) {
        Ok(()) => Ok(()),
        Err(ColumnarError::OutOfMemory) => Err(ColumnarError::OutOfMemory),
        Err(_) => Err(ColumnarError::InvalidData),
    }
}
